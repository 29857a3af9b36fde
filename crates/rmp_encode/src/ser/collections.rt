//! Queues, sets and maps.
//!
//! Only their elements and the sink may allocate. 2 ^ 32 elements or pairs or more are refused, and nothing is
//! written.
ghost use Rattle.std.specs.Prelude.{◌^◌, ◌≤◌, ◌||◌, map, length, All, IfErr, OnOk};
ghost use Rattle.std.specs.List.Sorted.{IsStrictlySortedBy};
ghost use Rattle.std.specs.Map.{keys_of};
ghost use Rattle.rmp_encode.specs.Refusals.{OfEntries, OfItems, RefusesLength};
ghost use Rattle.rmp_encode.specs.Ser.{sink_of, settings_of};
ghost use Rattle.rmp_encode.specs.Trees.{tree_of, sequence_of, mapping_of, in_turn};
ghost use Rattle.rmp_encode.specs.Writes.{Keeps, WritesTree};

use crate::error::Error;
use crate::ser::Serialize;
use crate::serializer::Serializer;
use rmp_wire::Sink;
use rmp_wire::config::SerializerConfig;
use std::collections::{BTreeMap, BTreeSet, VecDeque};

impl<T: Serialize> Serialize for VecDeque<T> {
    ghost data_of = { λ v human. sequence_of (map (λ x. T.data_of x human) v.items) };

    ghost is_value = { λ v. All T.is_value v.items };

    ghost takes_memory = { T.takes_memory };

    ghost refuses = { λ v. OfItems T.refuses v.items };

    fn serialize<W: Sink, C: SerializerConfig>(
        &self,
        se: &mut Serializer<W, C>,
    ) -> Result<(), Error>
        ensures writes { WritesTree W.Sink (T.takes_memory (settings_of se.old) || W.takes_memory)
            (tree_of (settings_of se.old) (sequence_of (map (λ x. T.data_of x (settings_of se.old).human) self.now.items))) (sink_of se.old)
            (sink_of se.new) result }
        ensures keeps { Keeps W.Sink se.old se.new }
        ensures long { 2 ^ 32 ≤ length self.now.items → RefusesLength se.old se.new result }
        ensures error { IfErr result (OfItems T.refuses self.now.items) }
        ensures value { OnOk result (All T.is_value self.now.items) }
    {
        se.put_len(false, self.len())?;
        for item in self {
            item.serialize(se)?;
        }
        Ok(())
    }

    #[tactic(auto, using(crate::proofs::Lists::sequence_no_byte))]
    #[inline(always)]
    fn as_u8(&self, _human: bool) -> Option<u8> {
        None
    }
}

impl<T: Serialize + Ord> Serialize for BTreeSet<T> {
    ghost data_of = { λ v human. sequence_of (map (λ x. T.data_of x human) v.keys) };

    ghost is_value = { λ v. All T.is_value v.keys × IsStrictlySortedBy T.cmp v.keys };

    ghost takes_memory = { T.takes_memory };

    ghost refuses = { λ v. OfItems T.refuses v.keys };

    fn serialize<W: Sink, C: SerializerConfig>(
        &self,
        se: &mut Serializer<W, C>,
    ) -> Result<(), Error>
        ensures writes { WritesTree W.Sink (T.takes_memory (settings_of se.old) || W.takes_memory)
            (tree_of (settings_of se.old) (sequence_of (map (λ x. T.data_of x (settings_of se.old).human) self.now.keys))) (sink_of se.old) (sink_of se.new)
            result }
        ensures keeps { Keeps W.Sink se.old se.new }
        ensures long { 2 ^ 32 ≤ length self.now.keys → RefusesLength se.old se.new result }
        ensures error { IfErr result (OfItems T.refuses self.now.keys) }
        ensures value { OnOk result (All T.is_value self.now.keys × IsStrictlySortedBy T.cmp self.now.keys) }
    {
        se.put_len(false, self.len())?;
        for item in self {
            item.serialize(se)?;
        }
        Ok(())
    }

    #[tactic(auto, using(crate::proofs::Lists::sequence_no_byte))]
    #[inline(always)]
    fn as_u8(&self, _human: bool) -> Option<u8> {
        None
    }
}

impl<K: Serialize + Ord, V: Serialize> Serialize for BTreeMap<K, V> {
    ghost data_of = { λ v human. mapping_of (in_turn (λ k. K.data_of k human) (λ x. V.data_of x human) v.entries) };

    ghost is_value = { λ v. All (λ e. K.is_value e.0 × V.is_value e.1) v.entries × IsStrictlySortedBy K.cmp (keys_of v.entries) };

    ghost takes_memory = { λ s. K.takes_memory s || V.takes_memory s };

    ghost refuses = { λ v. OfEntries K.refuses V.refuses v.entries };

    fn serialize<W: Sink, C: SerializerConfig>(
        &self,
        se: &mut Serializer<W, C>,
    ) -> Result<(), Error>
        ensures writes { WritesTree W.Sink ((K.takes_memory (settings_of se.old) || V.takes_memory (settings_of se.old)) || W.takes_memory)
            (tree_of (settings_of se.old) (mapping_of (in_turn (λ k. K.data_of k (settings_of se.old).human) (λ x. V.data_of x (settings_of se.old).human)
            self.now.entries))) (sink_of se.old) (sink_of se.new) result }
        ensures keeps { Keeps W.Sink se.old se.new }
        ensures long { 2 ^ 32 ≤ length self.now.entries → RefusesLength se.old se.new result }
        ensures error { IfErr result (OfEntries K.refuses V.refuses self.now.entries) }
        ensures value { OnOk result (All (λ e. K.is_value e.0 × V.is_value e.1) self.now.entries × IsStrictlySortedBy K.cmp (keys_of self.now.entries)) }
    {
        se.put_len(true, self.len())?;
        for (key, value) in self {
            key.serialize(se)?;
            value.serialize(se)?;
        }
        Ok(())
    }

    #[tactic(auto, using(crate::proofs::Lists::mapping_no_byte))]
    #[inline(always)]
    fn as_u8(&self, _human: bool) -> Option<u8> {
        None
    }
}
