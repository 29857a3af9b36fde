//! 128-bit numbers.
#![tactic(auto, unfolding(crate::specs::Data::lower), using(crate::proofs::Parts::part_memory))]

ghost use Rattle.std.specs.Prelude.{◌<◌, ◌^◌, Some, FitsSigned, false};
ghost use Rattle.std.specs.Int.{w128};
ghost use Rattle.rmp_encode.specs.Data.{signed128, unsigned128};
ghost use Rattle.rmp_encode.specs.Refusals.{OfSink};
ghost use Rattle.rmp_encode.specs.Writes.{AtItem};

use crate::error::Error;
use crate::ser::Serialize;
use crate::serializer::Serializer;
use rmp_wire::Sink;
use rmp_wire::config::SerializerConfig;

impl Serialize for u128 {
    ghost data_of = { λ v _. Some (unsigned128 v) };

    ghost is_value = { λ v. v < 2 ^ 128 };

    ghost takes_memory = { λ _. false };

    ghost refuses = { λ _. OfSink };

    ghost marks = { λ _ _. AtItem };

    #[inline(always)]
    fn serialize<W: Sink, C: SerializerConfig>(
        &self,
        se: &mut Serializer<W, C>,
    ) -> Result<(), Error> {
        se.serialize_u128(*self)
    }

    #[inline(always)]
    fn as_u8(&self, _human: bool) -> Option<u8> {
        None
    }
}

impl Serialize for i128 {
    ghost data_of = { λ v _. Some (signed128 v) };

    ghost is_value = { λ v. FitsSigned w128 v };

    ghost takes_memory = { λ _. false };

    ghost refuses = { λ _. OfSink };

    ghost marks = { λ _ _. AtItem };

    #[inline(always)]
    fn serialize<W: Sink, C: SerializerConfig>(
        &self,
        se: &mut Serializer<W, C>,
    ) -> Result<(), Error> {
        se.serialize_i128(*self)
    }

    #[inline(always)]
    fn as_u8(&self, _human: bool) -> Option<u8> {
        None
    }
}
