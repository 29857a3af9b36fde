//! Bytes, the bits of floats, and extensions.
#![tactic(auto, unfolding(crate::specs::Data::lower), using(crate::proofs::Parts::part_memory))]

ghost use Rattle.std.specs.Prelude.{◌<◌, ◌^◌, ◌||◌, ◌≤◌, Some, false, IfErr, OnOk, length};
ghost use Rattle.rmp_wire.specs.Types.{bytes_of, buffer_bytes, tag_of, ext_bytes};
ghost use Rattle.rmp_encode.specs.Data.{bytes, extension, float32, float64};
ghost use Rattle.rmp_encode.specs.Refusals.{OfLength, OfSink, RefusesLength};
ghost use Rattle.rmp_encode.specs.Ser.{sink_of, settings_of};
ghost use Rattle.rmp_encode.specs.Trees.{tree_of};
ghost use Rattle.rmp_encode.specs.Writes.{AtItem, Keeps, NoneAtMarker, WritesTree};

use crate::error::Error;
use crate::ser::Serialize;
use crate::serializer::Serializer;
use rmp_wire::config::SerializerConfig;
use rmp_wire::{ByteBuf, Bytes, Ext, F32Bits, F64Bits, Sink};

impl Serialize for F32Bits {
    ghost data_of = { λ v _. Some (float32 v.0) };

    ghost is_value = { λ v. v.0 < 2 ^ 32 };

    ghost takes_memory = { λ _. false };

    ghost refuses = { λ _. OfSink };

    ghost marks = { λ _ _. AtItem };

    #[inline(always)]
    fn serialize<W: Sink, C: SerializerConfig>(
        &self,
        se: &mut Serializer<W, C>,
    ) -> Result<(), Error> {
        se.serialize_f32_bits(self.0)
    }

    #[inline(always)]
    fn as_u8(&self, _human: bool) -> Option<u8> {
        None
    }
}

impl Serialize for F64Bits {
    ghost data_of = { λ v _. Some (float64 v.0) };

    ghost is_value = { λ v. v.0 < 2 ^ 64 };

    ghost takes_memory = { λ _. false };

    ghost refuses = { λ _. OfSink };

    ghost marks = { λ _ _. AtItem };

    #[inline(always)]
    fn serialize<W: Sink, C: SerializerConfig>(
        &self,
        se: &mut Serializer<W, C>,
    ) -> Result<(), Error> {
        se.serialize_f64_bits(self.0)
    }

    #[inline(always)]
    fn as_u8(&self, _human: bool) -> Option<u8> {
        None
    }
}

impl Serialize for Bytes<'_> {
    ghost data_of = { λ v _. Some (bytes (bytes_of v)) };

    ghost is_value = { λ v. Unit {0} };

    ghost takes_memory = { λ _. false };

    ghost refuses = { λ v. OfLength (2 ^ 32 ≤ length (bytes_of v)) };

    ghost marks = { λ _ _. AtItem };

    #[inline(always)]
    fn serialize<W: Sink, C: SerializerConfig>(
        &self,
        se: &mut Serializer<W, C>,
    ) -> Result<(), Error>
        ensures writes { WritesTree W.Sink (false || W.takes_memory) (tree_of (settings_of se.old) (Some (bytes (bytes_of self.now))))
            (sink_of se.old) (sink_of se.new) result }
        ensures marker { NoneAtMarker W.Sink (sink_of se.old) (sink_of se.new) result }
        ensures keeps { Keeps W.Sink se.old se.new }
        ensures error { IfErr result (OfLength (2 ^ 32 ≤ length (bytes_of self.now))) }
        ensures long { 2 ^ 32 ≤ length (bytes_of self.now) → RefusesLength se.old se.new result }
        ensures value { OnOk result (Unit {0}) }
    {
        se.serialize_bytes(self.as_bytes())
    }

    #[inline(always)]
    fn as_u8(&self, _human: bool) -> Option<u8> {
        None
    }
}

impl Serialize for ByteBuf {
    ghost data_of = { λ v _. Some (bytes (buffer_bytes v)) };

    ghost is_value = { λ v. Unit {0} };

    ghost takes_memory = { λ _. false };

    ghost refuses = { λ v. OfLength (2 ^ 32 ≤ length (buffer_bytes v)) };

    ghost marks = { λ _ _. AtItem };

    #[inline(always)]
    fn serialize<W: Sink, C: SerializerConfig>(
        &self,
        se: &mut Serializer<W, C>,
    ) -> Result<(), Error>
        ensures writes { WritesTree W.Sink (false || W.takes_memory) (tree_of (settings_of se.old) (Some (bytes (buffer_bytes self.now))))
            (sink_of se.old) (sink_of se.new) result }
        ensures marker { NoneAtMarker W.Sink (sink_of se.old) (sink_of se.new) result }
        ensures keeps { Keeps W.Sink se.old se.new }
        ensures error { IfErr result (OfLength (2 ^ 32 ≤ length (buffer_bytes self.now))) }
        ensures long { 2 ^ 32 ≤ length (buffer_bytes self.now) → RefusesLength se.old se.new result }
        ensures value { OnOk result (Unit {0}) }
    {
        se.serialize_bytes(self.as_bytes())
    }

    #[inline(always)]
    fn as_u8(&self, _human: bool) -> Option<u8> {
        None
    }
}

impl Serialize for Ext {
    ghost data_of = { λ v _. Some (extension (tag_of v) (ext_bytes v)) };

    ghost is_value = { λ v. Unit {0} };

    ghost takes_memory = { λ _. false };

    ghost refuses = { λ v. OfLength (2 ^ 32 ≤ length (ext_bytes v)) };

    ghost marks = { λ _ _. AtItem };

    #[inline(always)]
    fn serialize<W: Sink, C: SerializerConfig>(
        &self,
        se: &mut Serializer<W, C>,
    ) -> Result<(), Error>
        ensures writes { WritesTree W.Sink (false || W.takes_memory) (tree_of (settings_of se.old) (Some (extension (tag_of self.now) (ext_bytes self.now))))
            (sink_of se.old) (sink_of se.new) result }
        ensures marker { NoneAtMarker W.Sink (sink_of se.old) (sink_of se.new) result }
        ensures keeps { Keeps W.Sink se.old se.new }
        ensures error { IfErr result (OfLength (2 ^ 32 ≤ length (ext_bytes self.now))) }
        ensures long { 2 ^ 32 ≤ length (ext_bytes self.now) → RefusesLength se.old se.new result }
        ensures value { OnOk result (Unit {0}) }
    {
        se.serialize_ext(self.tag(), self.as_bytes())
    }

    #[inline(always)]
    fn as_u8(&self, _human: bool) -> Option<u8> {
        None
    }
}
