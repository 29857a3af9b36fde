//! Vectors, slices and arrays.
//!
//! In the mode `Normal` only their elements and the sink may allocate. A vector or a slice of 2 ^ 32 elements
//! or more is refused, and nothing is written.
ghost use Rattle.std.specs.Prelude.{◌≡◌, ◌^◌, ◌≤◌, ◌||◌, map, length, All, IfErr, OnOk};
ghost use Rattle.rmp_encode.specs.Markers.{any_mark};
ghost use Rattle.rmp_encode.specs.Refusals.{OfItems, RefusesLength};
ghost use Rattle.rmp_encode.specs.Ser.{sink_of, settings_of};
ghost use Rattle.rmp_encode.specs.Trees.{tree_of, slice_of, tuple_of, forces_all, forces_slices};
ghost use Rattle.rmp_encode.specs.Writes.{Keeps, MarkedBy, WritesTree};

use crate::error::Error;
use crate::ser::Serialize;
use crate::serializer::Serializer;
use crate::tuple::put_tuple;
use rmp_wire::Sink;
use rmp_wire::config::SerializerConfig;

impl<T: Serialize> Serialize for Vec<T> {
    ghost data_of = { λ v human. slice_of (map (λ x. T.data_of x human) v.items) };

    ghost is_value = { λ v. All T.is_value v.items };

    ghost takes_memory = { λ s. forces_slices s.bytes || T.takes_memory s };

    ghost refuses = { λ v. OfItems T.refuses v.items };

    fn serialize<W: Sink, C: SerializerConfig>(
        &self,
        se: &mut Serializer<W, C>,
    ) -> Result<(), Error>
        ensures writes { WritesTree W.Sink ((forces_slices (settings_of se.old).bytes || T.takes_memory (settings_of se.old)) || W.takes_memory)
            (tree_of (settings_of se.old) (slice_of (map (λ x. T.data_of x (settings_of se.old).human) self.now.items))) (sink_of se.old) (sink_of se.new)
            result }
        ensures keeps { Keeps W.Sink se.old se.new }
        ensures long { 2 ^ 32 ≤ length self.now.items → RefusesLength se.old se.new result }
        ensures error { IfErr result (OfItems T.refuses self.now.items) }
        ensures value { OnOk result (All T.is_value self.now.items) }
    {
        se.collect_seq(self.as_slice())
    }

    #[tactic(auto, using(crate::proofs::Packing::slice_no_byte))]
    #[inline(always)]
    fn as_u8(&self, _human: bool) -> Option<u8> {
        None
    }
}

impl<T: Serialize> Serialize for &[T] {
    ghost data_of = { λ v human. slice_of (map (λ x. T.data_of x human) v.now) };

    ghost is_value = { λ v. All T.is_value v.now };

    ghost takes_memory = { λ s. forces_slices s.bytes || T.takes_memory s };

    ghost refuses = { λ v. OfItems T.refuses v.now };

    fn serialize<W: Sink, C: SerializerConfig>(
        &self,
        se: &mut Serializer<W, C>,
    ) -> Result<(), Error>
        ensures writes { WritesTree W.Sink ((forces_slices (settings_of se.old).bytes || T.takes_memory (settings_of se.old)) || W.takes_memory)
            (tree_of (settings_of se.old) (slice_of (map (λ x. T.data_of x (settings_of se.old).human) self.now.now))) (sink_of se.old) (sink_of se.new)
            result }
        ensures marker { MarkedBy W.Sink any_mark (sink_of se.old) (sink_of se.new) result }
        ensures keeps { Keeps W.Sink se.old se.new }
        ensures long { 2 ^ 32 ≤ length self.now.now → RefusesLength se.old se.new result }
        ensures error { IfErr result (OfItems T.refuses self.now.now) }
        ensures value { OnOk result (All T.is_value self.now.now) }
    {
        se.collect_seq(self)
    }

    #[tactic(auto, using(crate::proofs::Packing::slice_no_byte))]
    #[inline(always)]
    fn as_u8(&self, _human: bool) -> Option<u8> {
        None
    }
}

impl<T: Serialize, const N: usize> Serialize for [T; N] {
    ghost data_of = { λ v human. tuple_of (map (λ x. T.data_of x human) v) };

    ghost is_value = { λ v. (length v ≡ N) × All T.is_value v };

    ghost takes_memory = { λ s. forces_all s.bytes || T.takes_memory s };

    ghost refuses = { OfItems T.refuses };

    fn serialize<W: Sink, C: SerializerConfig>(
        &self,
        se: &mut Serializer<W, C>,
    ) -> Result<(), Error> {
        put_tuple(se, self.as_slice())
    }

    #[tactic(auto, using(crate::proofs::Packing::tuple_no_byte))]
    #[inline(always)]
    fn as_u8(&self, _human: bool) -> Option<u8> {
        None
    }
}
