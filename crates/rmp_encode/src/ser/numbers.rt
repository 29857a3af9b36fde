//! Truth values and numbers.
#![tactic(auto, unfolding(crate::specs::Data::lower), using(crate::proofs::Parts::part_memory))]

ghost use Rattle.std.specs.Prelude.{◌<◌, ◌^◌, Some, pos, FitsSigned, false};
ghost use Rattle.std.specs.Int.{w8, w16, w32, w64};
ghost use Rattle.rmp_encode.specs.Data.{byte, truth, whole, unit};
ghost use Rattle.rmp_encode.specs.Refusals.{OfSink};
ghost use Rattle.rmp_encode.specs.Writes.{AtItem};

use crate::error::Error;
use crate::ser::Serialize;
use crate::serializer::Serializer;
use rmp_wire::Sink;
use rmp_wire::config::SerializerConfig;

impl Serialize for () {
    ghost data_of = { λ v _. Some (unit) };

    ghost is_value = { λ v. Unit {0} };

    ghost takes_memory = { λ _. false };

    ghost refuses = { λ _. OfSink };

    ghost marks = { λ _ _. AtItem };

    #[inline(always)]
    fn serialize<W: Sink, C: SerializerConfig>(
        &self,
        se: &mut Serializer<W, C>,
    ) -> Result<(), Error> {
        se.serialize_unit()
    }

    #[inline(always)]
    fn as_u8(&self, _human: bool) -> Option<u8> {
        None
    }
}

impl Serialize for bool {
    ghost data_of = { λ v _. Some (truth v) };

    ghost is_value = { λ v. Unit {0} };

    ghost takes_memory = { λ _. false };

    ghost refuses = { λ _. OfSink };

    ghost marks = { λ _ _. AtItem };

    #[inline(always)]
    fn serialize<W: Sink, C: SerializerConfig>(
        &self,
        se: &mut Serializer<W, C>,
    ) -> Result<(), Error> {
        se.serialize_bool(*self)
    }

    #[inline(always)]
    fn as_u8(&self, _human: bool) -> Option<u8> {
        None
    }
}

impl Serialize for u8 {
    ghost data_of = { λ v _. Some (byte v) };

    ghost is_value = { λ v. v < 2 ^ 8 };

    ghost takes_memory = { λ _. false };

    ghost refuses = { λ _. OfSink };

    ghost marks = { λ _ _. AtItem };

    #[inline(always)]
    fn serialize<W: Sink, C: SerializerConfig>(
        &self,
        se: &mut Serializer<W, C>,
    ) -> Result<(), Error> {
        se.serialize_u8(*self)
    }

    #[inline(always)]
    fn as_u8(&self, _human: bool) -> Option<u8> {
        Some(*self)
    }
}

impl Serialize for u16 {
    ghost data_of = { λ v _. Some (whole (pos v)) };

    ghost is_value = { λ v. v < 2 ^ 16 };

    ghost takes_memory = { λ _. false };

    ghost refuses = { λ _. OfSink };

    ghost marks = { λ _ _. AtItem };

    #[inline(always)]
    fn serialize<W: Sink, C: SerializerConfig>(
        &self,
        se: &mut Serializer<W, C>,
    ) -> Result<(), Error> {
        se.serialize_u16(*self)
    }

    #[inline(always)]
    fn as_u8(&self, _human: bool) -> Option<u8> {
        None
    }
}

impl Serialize for u32 {
    ghost data_of = { λ v _. Some (whole (pos v)) };

    ghost is_value = { λ v. v < 2 ^ 32 };

    ghost takes_memory = { λ _. false };

    ghost refuses = { λ _. OfSink };

    ghost marks = { λ _ _. AtItem };

    #[inline(always)]
    fn serialize<W: Sink, C: SerializerConfig>(
        &self,
        se: &mut Serializer<W, C>,
    ) -> Result<(), Error> {
        se.serialize_u32(*self)
    }

    #[inline(always)]
    fn as_u8(&self, _human: bool) -> Option<u8> {
        None
    }
}

impl Serialize for u64 {
    ghost data_of = { λ v _. Some (whole (pos v)) };

    ghost is_value = { λ v. v < 2 ^ 64 };

    ghost takes_memory = { λ _. false };

    ghost refuses = { λ _. OfSink };

    ghost marks = { λ _ _. AtItem };

    #[inline(always)]
    fn serialize<W: Sink, C: SerializerConfig>(
        &self,
        se: &mut Serializer<W, C>,
    ) -> Result<(), Error> {
        se.serialize_u64(*self)
    }

    #[inline(always)]
    fn as_u8(&self, _human: bool) -> Option<u8> {
        None
    }
}

impl Serialize for usize {
    ghost data_of = { λ v _. Some (whole (pos v)) };

    ghost is_value = { λ v. v < 2 ^ 64 };

    ghost takes_memory = { λ _. false };

    ghost refuses = { λ _. OfSink };

    ghost marks = { λ _ _. AtItem };

    #[inline(always)]
    fn serialize<W: Sink, C: SerializerConfig>(
        &self,
        se: &mut Serializer<W, C>,
    ) -> Result<(), Error> {
        se.serialize_u64(*self as u64)
    }

    #[inline(always)]
    fn as_u8(&self, _human: bool) -> Option<u8> {
        None
    }
}

impl Serialize for i8 {
    ghost data_of = { λ v _. Some (whole v) };

    ghost is_value = { λ v. FitsSigned w8 v };

    ghost takes_memory = { λ _. false };

    ghost refuses = { λ _. OfSink };

    ghost marks = { λ _ _. AtItem };

    #[inline(always)]
    fn serialize<W: Sink, C: SerializerConfig>(
        &self,
        se: &mut Serializer<W, C>,
    ) -> Result<(), Error> {
        se.serialize_i8(*self)
    }

    #[inline(always)]
    fn as_u8(&self, _human: bool) -> Option<u8> {
        None
    }
}

impl Serialize for i16 {
    ghost data_of = { λ v _. Some (whole v) };

    ghost is_value = { λ v. FitsSigned w16 v };

    ghost takes_memory = { λ _. false };

    ghost refuses = { λ _. OfSink };

    ghost marks = { λ _ _. AtItem };

    #[inline(always)]
    fn serialize<W: Sink, C: SerializerConfig>(
        &self,
        se: &mut Serializer<W, C>,
    ) -> Result<(), Error> {
        se.serialize_i16(*self)
    }

    #[inline(always)]
    fn as_u8(&self, _human: bool) -> Option<u8> {
        None
    }
}

impl Serialize for i32 {
    ghost data_of = { λ v _. Some (whole v) };

    ghost is_value = { λ v. FitsSigned w32 v };

    ghost takes_memory = { λ _. false };

    ghost refuses = { λ _. OfSink };

    ghost marks = { λ _ _. AtItem };

    #[inline(always)]
    fn serialize<W: Sink, C: SerializerConfig>(
        &self,
        se: &mut Serializer<W, C>,
    ) -> Result<(), Error> {
        se.serialize_i32(*self)
    }

    #[inline(always)]
    fn as_u8(&self, _human: bool) -> Option<u8> {
        None
    }
}

impl Serialize for i64 {
    ghost data_of = { λ v _. Some (whole v) };

    ghost is_value = { λ v. FitsSigned w64 v };

    ghost takes_memory = { λ _. false };

    ghost refuses = { λ _. OfSink };

    ghost marks = { λ _ _. AtItem };

    #[inline(always)]
    fn serialize<W: Sink, C: SerializerConfig>(
        &self,
        se: &mut Serializer<W, C>,
    ) -> Result<(), Error> {
        se.serialize_i64(*self)
    }

    #[inline(always)]
    fn as_u8(&self, _human: bool) -> Option<u8> {
        None
    }
}

impl Serialize for isize {
    ghost data_of = { λ v _. Some (whole v) };

    ghost is_value = { λ v. FitsSigned w64 v };

    ghost takes_memory = { λ _. false };

    ghost refuses = { λ _. OfSink };

    ghost marks = { λ _ _. AtItem };

    #[inline(always)]
    fn serialize<W: Sink, C: SerializerConfig>(
        &self,
        se: &mut Serializer<W, C>,
    ) -> Result<(), Error> {
        se.serialize_i64(*self as i64)
    }

    #[inline(always)]
    fn as_u8(&self, _human: bool) -> Option<u8> {
        None
    }
}
