//! Characters and texts.
#![tactic(auto, unfolding(crate::specs::Data::lower), using(crate::proofs::Parts::part_memory))]

ghost use Rattle.std.specs.Prelude.{◌||◌, ◌≤◌, ◌^◌, Some, IsUtf8, string_bytes, false, IfErr, OnOk, length};
ghost use Rattle.std.specs.Char.{IsScalar};
ghost use Rattle.rmp_encode.specs.Data.{char, text};
ghost use Rattle.rmp_encode.specs.Refusals.{OfLength, OfSink, RefusesLength};
ghost use Rattle.rmp_encode.specs.Ser.{sink_of, settings_of};
ghost use Rattle.rmp_encode.specs.Trees.{tree_of};
ghost use Rattle.rmp_encode.specs.Writes.{AtItem, Keeps, NoneAtMarker, WritesTree};

use crate::error::Error;
use crate::ser::Serialize;
use crate::serializer::Serializer;
use rmp_wire::Sink;
use rmp_wire::config::SerializerConfig;

impl Serialize for char {
    ghost data_of = { λ v _. Some (char v) };

    ghost is_value = { IsScalar };

    ghost takes_memory = { λ _. false };

    ghost refuses = { λ _. OfSink };

    ghost marks = { λ _ _. AtItem };

    #[inline(always)]
    fn serialize<W: Sink, C: SerializerConfig>(
        &self,
        se: &mut Serializer<W, C>,
    ) -> Result<(), Error> {
        se.serialize_char(*self)
    }

    #[inline(always)]
    fn as_u8(&self, _human: bool) -> Option<u8> {
        None
    }
}

impl Serialize for String {
    ghost data_of = { λ v _. Some (text (string_bytes v)) };

    ghost is_value = { λ v. IsUtf8 (string_bytes v) };

    ghost takes_memory = { λ _. false };

    ghost refuses = { λ v. OfLength (2 ^ 32 ≤ length (string_bytes v)) };

    ghost marks = { λ _ _. AtItem };

    #[inline(always)]
    fn serialize<W: Sink, C: SerializerConfig>(
        &self,
        se: &mut Serializer<W, C>,
    ) -> Result<(), Error>
        ensures writes { WritesTree W.Sink (false || W.takes_memory) (tree_of (settings_of se.old) (Some (text (string_bytes self.now))))
            (sink_of se.old) (sink_of se.new) result }
        ensures marker { NoneAtMarker W.Sink (sink_of se.old) (sink_of se.new) result }
        ensures keeps { Keeps W.Sink se.old se.new }
        ensures error { IfErr result (OfLength (2 ^ 32 ≤ length (string_bytes self.now))) }
        ensures long { 2 ^ 32 ≤ length (string_bytes self.now) → RefusesLength se.old se.new result }
        ensures value { OnOk result (IsUtf8 (string_bytes self.now)) }
    {
        se.serialize_str(self.as_str())
    }

    #[inline(always)]
    fn as_u8(&self, _human: bool) -> Option<u8> {
        None
    }
}

impl Serialize for &str {
    ghost data_of = { λ v _. Some (text v.now) };

    ghost is_value = { λ v. IsUtf8 v.now };

    ghost takes_memory = { λ _. false };

    ghost refuses = { λ v. OfLength (2 ^ 32 ≤ length v.now) };

    ghost marks = { λ _ _. AtItem };

    #[inline(always)]
    fn serialize<W: Sink, C: SerializerConfig>(
        &self,
        se: &mut Serializer<W, C>,
    ) -> Result<(), Error>
        ensures writes { WritesTree W.Sink (false || W.takes_memory) (tree_of (settings_of se.old) (Some (text self.now.now)))
            (sink_of se.old) (sink_of se.new) result }
        ensures marker { NoneAtMarker W.Sink (sink_of se.old) (sink_of se.new) result }
        ensures keeps { Keeps W.Sink se.old se.new }
        ensures error { IfErr result (OfLength (2 ^ 32 ≤ length self.now.now)) }
        ensures long { 2 ^ 32 ≤ length self.now.now → RefusesLength se.old se.new result }
        ensures value { OnOk result (IsUtf8 self.now.now) }
    {
        se.serialize_str(self)
    }

    #[inline(always)]
    fn as_u8(&self, _human: bool) -> Option<u8> {
        None
    }
}
