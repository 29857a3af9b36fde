//! Options, unit structs, newtype structs, 128-bit numbers, extensions, and slices.
ghost use Rattle.std.specs.Prelude.{◌≡◌, ◌≢◌, ◌/◌, ◌^◌, ◌||◌, Some, OnOk, IfErr, codes, ◌≤◌, length, map, All};
ghost use Rattle.std.specs.Int.{w128, to_be_bytes, cast_unsigned};
ghost use Rattle.rmp_wire.specs.Msg.{nil, bin, list, no_items};
ghost use Rattle.rmp_encode.specs.Errors.{RefusesName};
ghost use Rattle.rmp_encode.specs.Refusals.{OfSink, RefusesLength, OfItems};
ghost use Rattle.rmp_encode.specs.Ser.{sink_of, settings_of};
ghost use Rattle.rmp_encode.specs.Trees.{tree_of, wrapped_of, newtype_of, slice_of, forces_slices};
ghost use Rattle.rmp_encode.specs.Writes.{Keeps, MarkedBy, NoneAtMarker, WritesTree};
ghost use Rattle.rmp_encode.specs.Extensions.{inside, reference};

use crate::error::Error;
use crate::extension::ExtSerializer;
use crate::ser::Serialize;
use crate::serializer::{Serializer, answer};
use rmp_wire::config::SerializerConfig;
use rmp_wire::{MSGPACK_EXT_STRUCT_NAME, Sink};

// The upper half of a number. It is never less than the highest bit. The test changes nothing, but keeps the
// compiler from reading the half byte by byte where the number is in memory.
#[inline(always)]
fn high_half(n: u128) -> u64
    ensures { result ≡ n / 2 ^ 64 }
{
    let half = (n >> 64) as u64;
    let highest = (n >> 127) as u64;
    if half < highest {
        return highest;
    }
    half
}

impl<W: Sink, C: SerializerConfig> Serializer<W, C> {
    /// Writes `None`, as nil.
    ///
    /// # Errors
    /// `InvalidValueWrite` where the sink fails, and `OutOfMemory` where it cannot allocate.
    #[inline(always)]
    pub fn serialize_none(&mut self) -> Result<(), Error>
        ensures writes { WritesTree W.Sink W.takes_memory (Some nil) (sink_of self.old) (sink_of self.new) result }
        ensures marker { NoneAtMarker W.Sink (sink_of self.old) (sink_of self.new) result }
        ensures error { IfErr result OfSink }
        ensures keeps { Keeps W.Sink self.old self.new }
    {
        self.serialize_unit()
    }

    /// Writes the value of a `Some`, without a wrapper. So `Some` of a value that is written as nil is read as
    /// `None`.
    ///
    /// # Errors
    /// Those of the value.
    #[inline(always)]
    pub fn serialize_some<T: Serialize>(&mut self, value: &T) -> Result<(), Error>
        ensures writes { WritesTree W.Sink (T.takes_memory (settings_of self.old) || W.takes_memory)
            (tree_of (settings_of self.old) (wrapped_of (T.data_of value.now (settings_of self.old).human))) (sink_of self.old) (sink_of self.new) result }
        ensures marker { MarkedBy W.Sink (T.marks value.now (settings_of self.old)) (sink_of self.old) (sink_of self.new) result }
        ensures keeps { Keeps W.Sink self.old self.new }
        ensures error { IfErr result (T.refuses value.now) }
        ensures value { OnOk result (T.is_value value.now) }
    {
        value.serialize(self)
    }

    /// Writes a unit struct, as the empty list. Its name isn't written.
    ///
    /// # Errors
    /// `InvalidValueWrite` where the sink fails, and `OutOfMemory` where it cannot allocate.
    #[inline(always)]
    pub fn serialize_unit_struct(&mut self, _name: &'static str) -> Result<(), Error>
        ensures writes { WritesTree W.Sink W.takes_memory (Some (list no_items)) (sink_of self.old) (sink_of self.new) result }
        ensures marker { NoneAtMarker W.Sink (sink_of self.old) (sink_of self.new) result }
        ensures error { IfErr result OfSink }
        ensures keeps { Keeps W.Sink self.old self.new }
    {
        self.put_head(false, 0)
    }

    /// Writes the value of a newtype struct, without a wrapper. The struct's name isn't written.
    ///
    /// # Errors
    /// `InvalidDataModel("expected tuple")` where the name is `MSGPACK_EXT_STRUCT_NAME`, which the Rust crate
    /// uses for an extension; then nothing is written. Otherwise those of the value.
    #[inline(always)]
    pub fn serialize_newtype_struct<T: Serialize>(
        &mut self,
        name: &'static str,
        value: &T,
    ) -> Result<(), Error>
        ensures writes { WritesTree W.Sink (T.takes_memory (settings_of self.old) || W.takes_memory)
            (tree_of (settings_of self.old) (newtype_of name.now (T.data_of value.now (settings_of self.old).human))) (sink_of self.old) (sink_of self.new)
            result }
        ensures keeps { Keeps W.Sink self.old self.new }
        ensures refused { name.now ≡ codes "_ExtStruct" → RefusesName self.old self.new result }
        ensures marker { name.now ≢ codes "_ExtStruct" → MarkedBy W.Sink (T.marks value.now (settings_of self.old)) (sink_of self.old) (sink_of self.new)
            result }
        ensures error { name.now ≢ codes "_ExtStruct" → IfErr result (T.refuses value.now) }
        ensures value { OnOk result (T.is_value value.now) }
    {
        if name == MSGPACK_EXT_STRUCT_NAME {
            return Err(Error::InvalidDataModel("expected tuple"));
        }
        value.serialize(self)
    }

    /// Writes an unsigned 128-bit number, as its 16 bytes in big-endian order.
    ///
    /// # Errors
    /// `InvalidValueWrite` where the sink fails, and `OutOfMemory` where it cannot allocate.
    #[inline(always)]
    pub fn serialize_u128(&mut self, n: u128) -> Result<(), Error>
        ensures writes { WritesTree W.Sink W.takes_memory (Some (bin (to_be_bytes w128 n))) (sink_of self.old) (sink_of self.new) result }
        ensures marker { NoneAtMarker W.Sink (sink_of self.old) (sink_of self.new) result }
        ensures error { IfErr result OfSink }
        ensures keeps { Keeps W.Sink self.old self.new }
    {
        let high = high_half(n);
        let low = (n % (1 << 64)) as u64;
        let mut piece = [16; 18];
        piece[0] = 0xc4;
        piece[2..10].copy_from_slice(&high.to_be_bytes());
        piece[10..].copy_from_slice(&low.to_be_bytes());
        answer(self.wr.put_all(&piece))
    }

    /// Writes a signed 128-bit number, as the 16 bytes of its two's complement in big-endian order.
    ///
    /// # Errors
    /// `InvalidValueWrite` where the sink fails, and `OutOfMemory` where it cannot allocate.
    #[inline(always)]
    pub fn serialize_i128(&mut self, n: i128) -> Result<(), Error>
        ensures writes { WritesTree W.Sink W.takes_memory (Some (bin (to_be_bytes w128 (cast_unsigned w128 n)))) (sink_of self.old) (sink_of self.new) result }
        ensures marker { NoneAtMarker W.Sink (sink_of self.old) (sink_of self.new) result }
        ensures error { IfErr result OfSink }
        ensures keeps { Keeps W.Sink self.old self.new }
    {
        self.serialize_u128(n.cast_unsigned())
    }

    /// Opens an extension. Nothing is written.
    pub fn extension(&mut self) -> ExtSerializer<'_, W, C>
        ensures same_reference { reference result ≡ self.entry.ghost_name }
        ensures stays { inside result ≡ self.old }
    {
        ExtSerializer { se: self }
    }

    /// Writes the items of a slice.
    ///
    /// In the modes `ForceIterables` and `ForceAll`, items that are all `u8` are written as bytes, unless the
    /// slice is empty. In the mode `Normal` only the items and the sink may allocate.
    ///
    /// # Errors
    /// `InvalidDataModel` for 2 ^ 32 items or more, and nothing is written; otherwise those of an item's type
    /// and of the sink, or `OutOfMemory`.
    pub fn collect_seq<T: Serialize>(&mut self, values: &[T]) -> Result<(), Error>
        ensures writes { WritesTree W.Sink ((forces_slices (settings_of self.old).bytes || T.takes_memory (settings_of self.old)) || W.takes_memory)
            (tree_of (settings_of self.old) (slice_of (map (λ x. T.data_of x (settings_of self.old).human) values.now))) (sink_of self.old)
            (sink_of self.new) result }
        ensures keeps { Keeps W.Sink self.old self.new }
        ensures long { 2 ^ 32 ≤ length values.now → RefusesLength self.old self.new result }
        ensures error { IfErr result (OfItems T.refuses values.now) }
        ensures value { OnOk result (All T.is_value values.now) }
    {
        if self.packs_slice(values) {
            return self.put_packed(values);
        }
        self.put_list(values)
    }
}
