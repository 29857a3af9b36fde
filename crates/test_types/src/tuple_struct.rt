//! Tuple structs of two fields and of none.
ghost use Rattle.std.specs.Prelude.{[], ◌∷◌, ◌<◌, ◌^◌, false, None, Some, pos, ⊤};
ghost use Rattle.rmp_decode.specs.Read.{IsUnsigned};
ghost use Rattle.rmp_decode.specs.Rows.{AndThen, NoMore};
ghost use Rattle.rmp_decode.specs.Seq.{OfRow};
ghost use Rattle.rmp_encode.specs.Data.{byte, whole};
ghost use Rattle.rmp_encode.specs.Trees.{sequence_of};

use rmp_decode::{Deserialize, Deserializer};
use rmp_encode::{Serialize, Serializer};
use rmp_wire::config::SerializerConfig;
use rmp_wire::{ReadSlice, Sink};

/// A tuple struct of two numbers. It is read as the pair of them.
#[derive(Clone, Copy, Drop)]
pub struct TupleS(pub u8, pub u16);

/// A tuple struct that has no fields. It is written as the empty list, and read from it or from no bytes.
#[derive(Clone, Copy, Drop)]
pub struct TupleS0();

impl Serialize for TupleS {
    ghost data_of = { λ v _. sequence_of (Some (byte v.0) ∷ (Some (whole (pos v.1)) ∷ [])) };

    ghost is_value = { λ v. (v.0 < 2 ^ 8) × (v.1 < 2 ^ 16) };

    ghost takes_memory = { λ _. false };

    fn serialize<W: Sink, C: SerializerConfig>(
        &self,
        se: &mut Serializer<W, C>,
    ) -> Result<(), rmp_encode::Error> {
        let mut parts = se.serialize_tuple_struct("TupleS", 2)?;
        parts.serialize_element(&self.0)?;
        parts.serialize_element(&self.1)?;
        parts.end()
    }

    #[tactic(auto, using(rmp_encode::proofs::Lists::sequence_no_byte))]
    fn as_u8(&self, _human: bool) -> Option<u8> {
        None
    }
}

impl<'de, R: ReadSlice<'de>> Deserialize<'de, R> for TupleS {
    ghost reads = { λ _ _ m v. OfRow (AndThen (λ k. IsUnsigned 255 k v.0) (AndThen (λ k. IsUnsigned 65535 k v.1) NoMore)) m };

    ghost absent = { None };

    fn deserialize<C: SerializerConfig>(
        de: &mut Deserializer<R, C>,
    ) -> Result<TupleS, rmp_decode::Error> {
        let read: Result<(u8, u16), rmp_decode::Error> = Deserialize::deserialize(de);
        match read {
            Ok(parts) => Ok(TupleS(parts.0, parts.1)),
            Err(e) => Err(e),
        }
    }

    fn missing() -> Option<TupleS> {
        None
    }
}

impl Serialize for TupleS0 {
    ghost data_of = { λ _ _. sequence_of [] };

    ghost is_value = { λ _. ⊤ };

    ghost takes_memory = { λ _. false };

    fn serialize<W: Sink, C: SerializerConfig>(
        &self,
        se: &mut Serializer<W, C>,
    ) -> Result<(), rmp_encode::Error> {
        let parts = se.serialize_tuple_struct("TupleS0", 0)?;
        parts.end()
    }

    #[tactic(auto, using(rmp_encode::proofs::Lists::sequence_no_byte))]
    fn as_u8(&self, _human: bool) -> Option<u8> {
        None
    }
}

impl<'de, R: ReadSlice<'de>> Deserialize<'de, R> for TupleS0 {
    ghost reads = { λ _ _ m _. OfRow NoMore m };

    ghost absent = { None };

    fn deserialize<C: SerializerConfig>(
        de: &mut Deserializer<R, C>,
    ) -> Result<TupleS0, rmp_decode::Error> {
        let seq = match de.deserialize_tuple_struct("TupleS0", 0) {
            Ok(seq) => seq,
            Err(e) => return Err(e),
        };
        match seq.end() {
            Ok(()) => Ok(TupleS0()),
            Err(e) => Err(e),
        }
    }

    fn missing() -> Option<TupleS0> {
        None
    }
}
