//! A tuple struct that is written part by part, and read as a tuple.
ghost use Rattle.std.specs.Prelude.{◌∷◌, ◌<◌, ◌^◌, [], false, None, Some, pos, IsUtf8, string_bytes};
ghost use Rattle.rmp_encode.specs.Data.{text, whole};
ghost use Rattle.rmp_encode.specs.Trees.{sequence_of};
ghost use Rattle.rmp_decode.specs.Read.{IsRaw, IsUnsigned};
ghost use Rattle.rmp_decode.specs.Rows.{AndThen, NoMore};
ghost use Rattle.rmp_decode.specs.Seq.{OfRow};

use rmp_decode::{Deserialize, Deserializer, Error};
use rmp_encode::{Serialize, Serializer};
use rmp_wire::config::SerializerConfig;
use rmp_wire::{ReadSlice, Sink};

/// A number and a text.
#[derive(Drop)]
pub struct Point(pub u32, pub String);

impl Serialize for Point {
    ghost data_of = { λ v _. sequence_of (Some (whole (pos v.0)) ∷ (Some (text (string_bytes v.1)) ∷ [])) };

    ghost is_value = { λ v. (v.0 < 2 ^ 32) × IsUtf8 (string_bytes v.1) };

    ghost takes_memory = { λ _. false };

    fn serialize<W: Sink, C: SerializerConfig>(
        &self,
        se: &mut Serializer<W, C>,
    ) -> Result<(), rmp_encode::Error> {
        let mut parts = se.serialize_tuple_struct("Point", 2)?;
        parts.serialize_element(&self.0)?;
        parts.serialize_element(&self.1)?;
        parts.end()
    }

    #[tactic(auto, using(rmp_encode::proofs::Lists::sequence_no_byte))]
    fn as_u8(&self, _human: bool) -> Option<u8> {
        None
    }
}

impl<'de, R: ReadSlice<'de>> Deserialize<'de, R> for Point {
    ghost reads = { λ human lends m v. OfRow (AndThen (λ k. IsUnsigned 4294967295 k v.0) (AndThen (λ k. IsRaw k (string_bytes v.1)) NoMore)) m };

    ghost absent = { None };

    fn deserialize<C: SerializerConfig>(de: &mut Deserializer<R, C>) -> Result<Point, Error> {
        let read: Result<(u32, String), Error> = Deserialize::deserialize(de);
        match read {
            Ok(parts) => Ok(Point(parts.0, parts.1)),
            Err(e) => Err(e),
        }
    }

    fn missing() -> Option<Point> {
        None
    }
}
