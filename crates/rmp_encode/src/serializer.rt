//! A serializer over a sink.
ghost use Rattle.std.specs.Prelude.{◌≡◌, ◌^◌, ◌<◌, ◌≤◌, ◌||◌, ◌∷◌, IfErr, true, false, [], Some, pos, length, encode_utf8};
ghost use Rattle.std.specs.Borrow.{sem};
ghost use Rattle.rmp_wire.specs.declared.head.Head.TheVariants.{Bin};
ghost use Rattle.rmp_wire.specs.Heads.{canon_head};
ghost use Rattle.rmp_wire.specs.Spelling.{canon};
ghost use Rattle.rmp_wire.specs.Msg.{nil, truth, whole, float32, float64, text, bin, extension};
ghost use Rattle.rmp_encode.specs.Errors.{answer_of};
ghost use Rattle.rmp_encode.specs.Going.{head_at};
ghost use Rattle.rmp_encode.specs.Markers.{field_pieces, name_pieces, value_of};
ghost use Rattle.rmp_encode.specs.Promises.{OpensParts, WritesHead, WritesMessage, WritesParts, WritesPiece};
ghost use Rattle.rmp_encode.specs.Refusals.{OfLength, OfSink, RefusesLength};
ghost use Rattle.rmp_encode.specs.Ser.{sink_of, settings_of, LendsSink};
ghost use Rattle.rmp_encode.specs.Trees.{ext_head, field_parts, name_parts, number_head};
ghost use Rattle.rmp_encode.specs.Writes.{Keeps, NoneAtMarker, WritesTree, StaysAtRefusal};

mod leaves;
mod open;

use crate::error::Error;
use crate::length::fits_u32;
use crate::ser::Serialize;
use crate::settings::Settings;
use rmp_wire::config::{
    BinaryConfig, BytesMode, DefaultConfig, HumanReadableConfig, SerializerConfig, StructMapConfig,
    StructTupleConfig,
};
use rmp_wire::write::{
    write_array_len, write_bin, write_bin_len, write_bool, write_ext_meta, write_f32_bits,
    write_f64_bits, write_map_len, write_nil, write_sint, write_str, write_uint,
};
use rmp_wire::{Sink, ValueWriteError};
use std::alloc::Global;
use std::marker::PhantomData;

/// Writes values to a sink, each in its canonical encoding.
///
/// A fault of the sink names the item that it interrupted: `InvalidMarkerWrite` where no byte of it was written,
/// and `InvalidDataWrite` otherwise. A value with a length of 2 ^ 32 or more is refused by `InvalidDataModel`,
/// and nothing of it is written.
#[derive(Drop)]
pub struct Serializer<W, C = DefaultConfig> {
    wr: W,
    alloc: Global,
    settings: Settings,
    config: PhantomData<C>,
}

// The result of a write, from that of rmp_wire.
#[inline(always)]
pub(crate) fn answer(r: Result<(), ValueWriteError>) -> Result<(), Error>
    ensures is { result ≡ answer_of r }
    ensures error { IfErr result OfSink }
{
    match r {
        Ok(()) => Ok(()),
        Err(e) => Err(Error::from(e)),
    }
}

// The head of a list of fewer than sixteen elements, or of a map of as few pairs: one byte.
#[inline(always)]
#[tactic(auto, unfolding(crate::specs::Going::head_at, rmp_wire::specs::Heads::canon_head))]
fn short_head(pairs: bool, n: u32) -> u8
    requires { n < 16 }
    ensures { result ∷ [] ≡ head_at pairs n }
{
    if pairs {
        return 0x80 + n as u8;
    }
    0x90 + n as u8
}

impl<W: Sink> Serializer<W> {
    /// Makes a serializer with the default settings: structs are lists, values are written compactly, and no
    /// list is written as bytes.
    ///
    /// `let mut se = Serializer::new(alloc, Vec::new(alloc)); se.serialize_u16(300)?; se.into_inner()` is `cd 01 2c`.
    ///
    /// # Examples
    /// ```
    /// use rmp_serde::Serializer;
    /// use rmp_serde::encode::Serialize;
    /// use std::vec::Vec;
    ///
    /// let mut se = Serializer::new(alloc, Vec::new(alloc));
    /// 42u8.serialize(&mut se)?;
    /// "it".serialize(&mut se)?;
    /// assert_eq!(rt; se.into_inner().as_slice(), [0x2a, 0xa2, 0x69, 0x74].as_slice());
    /// ```
    pub fn new(alloc: Global, wr: W) -> Serializer<W>
        ensures sink { sink_of result ≡ wr }
        ensures settings { settings_of result ≡ record { named = false; human = false; bytes = BytesMode.Normal } }
    {
        Serializer {
            wr,
            alloc,
            settings: Settings {
                named: false,
                human: false,
                bytes: BytesMode::Normal,
            },
            config: PhantomData,
        }
    }
}

impl<W: Sink> Serializer<W, StructMapConfig<DefaultConfig>> {
    // A serializer with the default settings, except that structs are maps from field names.
    pub(crate) fn named(alloc: Global, wr: W) -> Serializer<W, StructMapConfig<DefaultConfig>>
        ensures sink { sink_of result ≡ wr }
        ensures settings { settings_of result ≡ record { named = true; human = false; bytes = BytesMode.Normal } }
    {
        Serializer {
            wr,
            alloc,
            settings: Settings {
                named: true,
                human: false,
                bytes: BytesMode::Normal,
            },
            config: PhantomData,
        }
    }
}

impl<W: Sink, C: SerializerConfig> Serializer<W, C> {
    /// Returns a reference to the sink.
    pub fn get_ref(&self) -> &W
        ensures { result.now ≡ sink_of self.now }
    {
        &self.wr
    }

    /// Returns a mutable reference to the sink.
    pub fn get_mut(&mut self) -> &mut W
        ensures* writes_back { sem 𝓛 (LendsSink W.row C.row self.entry result) }
        ensures value { result.now ≡ sink_of self.old }
    {
        &mut self.wr
    }

    /// Returns the sink, and drops the serializer.
    pub fn into_inner(self) -> W
        ensures { result ≡ sink_of self }
    {
        self.wr
    }

    /// Returns whether values are written for humans.
    #[inline(always)]
    pub fn is_human_readable(&self) -> bool
        ensures { result ≡ (settings_of self.now).human }
    {
        self.settings.human
    }

    /// Returns whether structs are written as maps from field names.
    #[inline(always)]
    pub fn is_named(&self) -> bool
        ensures { result ≡ (settings_of self.now).named }
    {
        self.settings.named
    }

    /// Returns which lists of `u8` are written as bytes.
    #[inline(always)]
    pub fn bytes(&self) -> BytesMode
        ensures { result ≡ (settings_of self.now).bytes }
    {
        self.settings.bytes
    }

    /// Sets the mode.
    pub fn with_bytes(self, mode: BytesMode) -> Serializer<W, C>
        ensures sink { sink_of result ≡ sink_of self }
        ensures settings { settings_of result ≡ record (settings_of self) { bytes = mode } }
    {
        let settings = Settings {
            bytes: mode,
            ..self.settings
        };
        self.with_settings(settings)
    }

    /// Writes structs as maps from field names from here on.
    pub fn with_struct_map(self) -> Serializer<W, StructMapConfig<C>>
        ensures sink { sink_of result ≡ sink_of self }
        ensures settings { settings_of result ≡ record (settings_of self) { named = true } }
    {
        self.with_names(true)
    }

    /// Writes structs as lists from here on.
    pub fn with_struct_tuple(self) -> Serializer<W, StructTupleConfig<C>>
        ensures sink { sink_of result ≡ sink_of self }
        ensures settings { settings_of result ≡ record (settings_of self) { named = false } }
    {
        self.with_names(false)
    }

    /// Writes values for humans from here on.
    pub fn with_human_readable(self) -> Serializer<W, HumanReadableConfig<C>>
        ensures sink { sink_of result ≡ sink_of self }
        ensures settings { settings_of result ≡ record (settings_of self) { human = true } }
    {
        self.with_readable(true)
    }

    /// Writes values compactly from here on.
    pub fn with_binary(self) -> Serializer<W, BinaryConfig<C>>
        ensures sink { sink_of result ≡ sink_of self }
        ensures settings { settings_of result ≡ record (settings_of self) { human = false } }
    {
        self.with_readable(false)
    }

    /// Does nothing: writing has no depth limit.
    pub fn unstable_set_max_depth(&mut self, _depth: usize)
        ensures { self.new ≡ self.old }
    {}

    // A serializer with the same settings over another sink.
    pub(crate) fn over<V>(&self, wr: V) -> Serializer<V, C>
        ensures sink { sink_of result ≡ wr }
        ensures settings { settings_of result ≡ settings_of self.now }
    {
        Serializer {
            wr,
            alloc: self.alloc,
            settings: self.settings,
            config: PhantomData,
        }
    }

    // An empty vector.
    pub(crate) fn empty(&self) -> Vec<u8>
        ensures { result.items ≡ [] }
    {
        Vec::new(self.alloc)
    }

    fn with_names<D>(self, named: bool) -> Serializer<W, D>
        ensures sink { sink_of result ≡ sink_of self }
        ensures settings { settings_of result ≡ record (settings_of self) { named = named } }
    {
        let settings = Settings {
            named,
            ..self.settings
        };
        self.with_settings(settings)
    }

    fn with_readable<D>(self, human: bool) -> Serializer<W, D>
        ensures sink { sink_of result ≡ sink_of self }
        ensures settings { settings_of result ≡ record (settings_of self) { human = human } }
    {
        let settings = Settings {
            human,
            ..self.settings
        };
        self.with_settings(settings)
    }

    fn with_settings<D>(self, settings: Settings) -> Serializer<W, D>
        ensures sink { sink_of result ≡ sink_of self }
        ensures settings { settings_of result ≡ settings }
    {
        Serializer {
            wr: self.wr,
            alloc: self.alloc,
            settings,
            config: PhantomData,
        }
    }
}

impl<W: Sink, C: SerializerConfig> Serializer<W, C> {
    // Writes bytes that follow a head. A fault is `InvalidDataWrite`.
    #[inline(always)]
    pub(crate) fn put(&mut self, piece: &[u8]) -> Result<(), Error>
        ensures { WritesPiece W.Sink piece.now self.old self.new result }
    {
        match self.wr.put_all(piece) {
            Ok(()) => Ok(()),
            Err(e) => Err(Error::from(e.past_first())),
        }
    }

    // Writes the numbers of a tuple after their head, each in one byte, out of line.
    pub(crate) fn put_kept(&mut self, piece: &[u8]) -> Result<(), Error>
        ensures { WritesPiece W.Sink piece.now self.old self.new result }
    {
        self.put(piece)
    }

    #[inline(always)]
    pub(crate) fn put_head(&mut self, pairs: bool, n: u32) -> Result<(), Error>
        ensures { WritesHead W.Sink (head_at pairs n) self.old self.new result }
    {
        if n < 16 {
            return answer(self.wr.put_all(&[short_head(pairs, n)]));
        }
        self.put_long_head(pairs, n)
    }

    // The same for sixteen elements or pairs and more, out of line.
    #[inline(never)]
    fn put_long_head(&mut self, pairs: bool, n: u32) -> Result<(), Error>
        ensures { WritesHead W.Sink (head_at pairs n) self.old self.new result }
    {
        if pairs {
            return answer(write_map_len(&mut self.wr, n));
        }
        answer(write_array_len(&mut self.wr, n))
    }

    // Writes the head of a list of `len` values, or of a map of `len` pairs, which the caller writes next. 2 ^
    // 32 or more are refused, and nothing is written.
    #[inline(always)]
    pub(crate) fn put_len(&mut self, pairs: bool, len: usize) -> Result<(), Error>
        ensures { OpensParts W.Sink (len < 2 ^ 32) (len ∷ []) (head_at pairs len ∷ []) (head_at pairs len) self.old self.new result }
    {
        let n = fits_u32(len)?;
        self.put_head(pairs, n)
    }

    // Writes a text that is likely to be short, such as a name of a type.
    #[inline(always)]
    pub(crate) fn put_word(&mut self, word: &str) -> Result<(), Error>
        ensures { WritesMessage W.Sink (text word.now) (length word.now) self.old self.new result }
    {
        if word.len() >= 32 {
            return self.put_long_word(word);
        }
        self.put_short_word(word)
    }

    // Writes a text of fewer than 32 bytes, its head and its bytes as one piece.
    #[inline(always)]
    fn put_short_word(&mut self, word: &str) -> Result<(), Error>
        requires { length word.now < 32 }
        ensures { WritesHead W.Sink (canon (text word.now)) self.old self.new result }
    {
        let bytes = word.as_bytes();
        let end = 1 + bytes.len();
        let mut piece = [0; 32];
        piece[0] = 0xa0 + bytes.len() as u8;
        piece[1..end].copy_from_slice(bytes);
        answer(self.wr.put_all(&piece[..end]))
    }

    // Writes a text of any length, out of line.
    #[inline(never)]
    fn put_long_word(&mut self, word: &str) -> Result<(), Error>
        ensures { WritesMessage W.Sink (text word.now) (length word.now) self.old self.new result }
    {
        self.serialize_str(word)
    }

    // Writes the name of a field, where structs are written with names.
    #[inline(always)]
    fn put_name(&mut self, key: &str) -> Result<(), Error>
        ensures parts { WritesParts W.Sink (λ _. W.takes_memory) (λ s. name_parts s.named key.now) (λ s. name_pieces s.named key.now)
            (2 ^ 32 ≤ length key.now) [] (Unit {0}) self.old self.new result }
        ensures long { (settings_of self.old).named ≡ true → 2 ^ 32 ≤ length key.now → RefusesLength self.old self.new result }
    {
        if !self.is_named() {
            return Ok(());
        }
        self.put_word(key)
    }

    // Writes a field: its value, and with names its name before it.
    #[inline(always)]
    pub(crate) fn put_field<T: Serialize>(&mut self, key: &str, value: &T) -> Result<(), Error>
        ensures parts { WritesParts W.Sink (λ s. T.takes_memory s || W.takes_memory) (λ s. field_parts s.named (key.now, T.data_of value.now s.human))
            (λ s. field_pieces s.named key.now (value_of s (T.data_of value.now s.human) (T.marks value.now s))) (2 ^ 32 ≤ length key.now)
            (T.refuses value.now ∷ []) (T.is_value value.now) self.old self.new result }
        ensures long { (settings_of self.old).named ≡ true → 2 ^ 32 ≤ length key.now → RefusesLength self.old self.new result }
    {
        self.put_name(key)?;
        value.serialize(self)
    }

    // Writes a byte as a number.
    #[inline(always)]
    pub(crate) fn put_byte(&mut self, n: u8) -> Result<(), Error>
        ensures { WritesHead W.Sink (number_head n) self.old self.new result }
    {
        answer(write_uint(&mut self.wr, u64::from(n)))
    }

    /// Writes nil.
    ///
    /// # Errors
    /// `InvalidValueWrite` where the sink fails, and `OutOfMemory` where it cannot allocate.
    #[inline(always)]
    pub fn serialize_unit(&mut self) -> Result<(), Error>
        ensures writes { WritesTree W.Sink W.takes_memory (Some nil) (sink_of self.old) (sink_of self.new) result }
        ensures marker { NoneAtMarker W.Sink (sink_of self.old) (sink_of self.new) result }
        ensures error { IfErr result OfSink }
        ensures keeps { Keeps W.Sink self.old self.new }
    {
        answer(write_nil(&mut self.wr))
    }

    /// Writes a truth value.
    ///
    /// # Errors
    /// `InvalidValueWrite` where the sink fails, and `OutOfMemory` where it cannot allocate.
    #[inline(always)]
    pub fn serialize_bool(&mut self, b: bool) -> Result<(), Error>
        ensures writes { WritesTree W.Sink W.takes_memory (Some (truth b)) (sink_of self.old) (sink_of self.new) result }
        ensures marker { NoneAtMarker W.Sink (sink_of self.old) (sink_of self.new) result }
        ensures error { IfErr result OfSink }
        ensures keeps { Keeps W.Sink self.old self.new }
    {
        answer(write_bool(&mut self.wr, b))
    }

    /// Writes a `u8` as a whole number.
    ///
    /// # Errors
    /// `InvalidValueWrite` where the sink fails, and `OutOfMemory` where it cannot allocate.
    #[inline(always)]
    pub fn serialize_u8(&mut self, n: u8) -> Result<(), Error>
        ensures writes { WritesTree W.Sink W.takes_memory (Some (whole (pos n))) (sink_of self.old) (sink_of self.new) result }
        ensures marker { NoneAtMarker W.Sink (sink_of self.old) (sink_of self.new) result }
        ensures error { IfErr result OfSink }
        ensures keeps { Keeps W.Sink self.old self.new }
    {
        answer(write_uint(&mut self.wr, u64::from(n)))
    }

    /// Writes a `u16` as a whole number.
    ///
    /// # Errors
    /// `InvalidValueWrite` where the sink fails, and `OutOfMemory` where it cannot allocate.
    #[inline(always)]
    pub fn serialize_u16(&mut self, n: u16) -> Result<(), Error>
        ensures writes { WritesTree W.Sink W.takes_memory (Some (whole (pos n))) (sink_of self.old) (sink_of self.new) result }
        ensures marker { NoneAtMarker W.Sink (sink_of self.old) (sink_of self.new) result }
        ensures error { IfErr result OfSink }
        ensures keeps { Keeps W.Sink self.old self.new }
    {
        answer(write_uint(&mut self.wr, u64::from(n)))
    }

    /// Writes a `u32` as a whole number.
    ///
    /// # Errors
    /// `InvalidValueWrite` where the sink fails, and `OutOfMemory` where it cannot allocate.
    #[inline(always)]
    pub fn serialize_u32(&mut self, n: u32) -> Result<(), Error>
        ensures writes { WritesTree W.Sink W.takes_memory (Some (whole (pos n))) (sink_of self.old) (sink_of self.new) result }
        ensures marker { NoneAtMarker W.Sink (sink_of self.old) (sink_of self.new) result }
        ensures error { IfErr result OfSink }
        ensures keeps { Keeps W.Sink self.old self.new }
    {
        answer(write_uint(&mut self.wr, u64::from(n)))
    }

    /// Writes a `u64` as a whole number.
    ///
    /// # Errors
    /// `InvalidValueWrite` where the sink fails, and `OutOfMemory` where it cannot allocate.
    #[inline(always)]
    pub fn serialize_u64(&mut self, n: u64) -> Result<(), Error>
        ensures writes { WritesTree W.Sink W.takes_memory (Some (whole (pos n))) (sink_of self.old) (sink_of self.new) result }
        ensures marker { NoneAtMarker W.Sink (sink_of self.old) (sink_of self.new) result }
        ensures error { IfErr result OfSink }
        ensures keeps { Keeps W.Sink self.old self.new }
    {
        answer(write_uint(&mut self.wr, n))
    }

    /// Writes an `i8` as a whole number.
    ///
    /// # Errors
    /// `InvalidValueWrite` where the sink fails, and `OutOfMemory` where it cannot allocate.
    #[inline(always)]
    pub fn serialize_i8(&mut self, n: i8) -> Result<(), Error>
        ensures writes { WritesTree W.Sink W.takes_memory (Some (whole n)) (sink_of self.old) (sink_of self.new) result }
        ensures marker { NoneAtMarker W.Sink (sink_of self.old) (sink_of self.new) result }
        ensures error { IfErr result OfSink }
        ensures keeps { Keeps W.Sink self.old self.new }
    {
        self.serialize_i64(i64::from(n))
    }

    /// Writes an `i16` as a whole number.
    ///
    /// # Errors
    /// `InvalidValueWrite` where the sink fails, and `OutOfMemory` where it cannot allocate.
    #[inline(always)]
    pub fn serialize_i16(&mut self, n: i16) -> Result<(), Error>
        ensures writes { WritesTree W.Sink W.takes_memory (Some (whole n)) (sink_of self.old) (sink_of self.new) result }
        ensures marker { NoneAtMarker W.Sink (sink_of self.old) (sink_of self.new) result }
        ensures error { IfErr result OfSink }
        ensures keeps { Keeps W.Sink self.old self.new }
    {
        self.serialize_i64(i64::from(n))
    }

    /// Writes an `i32` as a whole number.
    ///
    /// # Errors
    /// `InvalidValueWrite` where the sink fails, and `OutOfMemory` where it cannot allocate.
    #[inline(always)]
    pub fn serialize_i32(&mut self, n: i32) -> Result<(), Error>
        ensures writes { WritesTree W.Sink W.takes_memory (Some (whole n)) (sink_of self.old) (sink_of self.new) result }
        ensures marker { NoneAtMarker W.Sink (sink_of self.old) (sink_of self.new) result }
        ensures error { IfErr result OfSink }
        ensures keeps { Keeps W.Sink self.old self.new }
    {
        self.serialize_i64(i64::from(n))
    }

    /// Writes an `i64` as a whole number.
    ///
    /// # Errors
    /// `InvalidValueWrite` where the sink fails, and `OutOfMemory` where it cannot allocate.
    #[inline(always)]
    pub fn serialize_i64(&mut self, n: i64) -> Result<(), Error>
        ensures writes { WritesTree W.Sink W.takes_memory (Some (whole n)) (sink_of self.old) (sink_of self.new) result }
        ensures marker { NoneAtMarker W.Sink (sink_of self.old) (sink_of self.new) result }
        ensures error { IfErr result OfSink }
        ensures keeps { Keeps W.Sink self.old self.new }
    {
        answer(write_sint(&mut self.wr, n))
    }

    /// Writes the bits of a 32-bit float.
    ///
    /// # Errors
    /// `InvalidValueWrite` where the sink fails, and `OutOfMemory` where it cannot allocate.
    #[inline(always)]
    pub fn serialize_f32_bits(&mut self, bits: u32) -> Result<(), Error>
        ensures writes { WritesTree W.Sink W.takes_memory (Some (float32 bits)) (sink_of self.old) (sink_of self.new) result }
        ensures marker { NoneAtMarker W.Sink (sink_of self.old) (sink_of self.new) result }
        ensures error { IfErr result OfSink }
        ensures keeps { Keeps W.Sink self.old self.new }
    {
        answer(write_f32_bits(&mut self.wr, bits))
    }

    /// Writes the bits of a 64-bit float.
    ///
    /// # Errors
    /// `InvalidValueWrite` where the sink fails, and `OutOfMemory` where it cannot allocate.
    #[inline(always)]
    pub fn serialize_f64_bits(&mut self, bits: u64) -> Result<(), Error>
        ensures writes { WritesTree W.Sink W.takes_memory (Some (float64 bits)) (sink_of self.old) (sink_of self.new) result }
        ensures marker { NoneAtMarker W.Sink (sink_of self.old) (sink_of self.new) result }
        ensures error { IfErr result OfSink }
        ensures keeps { Keeps W.Sink self.old self.new }
    {
        answer(write_f64_bits(&mut self.wr, bits))
    }

    /// Writes a character, as the text of its UTF-8 bytes.
    ///
    /// # Errors
    /// `InvalidValueWrite` where the sink fails, and `OutOfMemory` where it cannot allocate.
    pub fn serialize_char(&mut self, c: char) -> Result<(), Error>
        ensures writes { WritesTree W.Sink W.takes_memory (Some (text (encode_utf8 c))) (sink_of self.old) (sink_of self.new) result }
        ensures marker { NoneAtMarker W.Sink (sink_of self.old) (sink_of self.new) result }
        ensures error { IfErr result OfSink }
        ensures keeps { Keeps W.Sink self.old self.new }
    {
        let mut room = [0; 4];
        self.serialize_str(c.encode_utf8(&mut room))
    }

    /// Writes a text.
    ///
    /// # Errors
    /// `InvalidDataModel("length past 32 bits")` for 2 ^ 32 bytes or more, and nothing is written; otherwise
    /// those of the sink.
    #[inline(always)]
    pub fn serialize_str(&mut self, s: &str) -> Result<(), Error>
        ensures writes { WritesTree W.Sink W.takes_memory (Some (text s.now)) (sink_of self.old) (sink_of self.new) result }
        ensures marker { NoneAtMarker W.Sink (sink_of self.old) (sink_of self.new) result }
        ensures error { IfErr result (OfLength (2 ^ 32 ≤ length s.now)) }
        ensures keeps { Keeps W.Sink self.old self.new }
        ensures refused { StaysAtRefusal self.old self.new result }
        ensures long { 2 ^ 32 ≤ length s.now → RefusesLength self.old self.new result }
    {
        fits_u32(s.len())?;
        answer(write_str(&mut self.wr, s))
    }

    /// Writes bytes.
    ///
    /// # Errors
    /// `InvalidDataModel("length past 32 bits")` for 2 ^ 32 bytes or more, and nothing is written; otherwise
    /// those of the sink.
    #[inline(always)]
    pub fn serialize_bytes(&mut self, bytes: &[u8]) -> Result<(), Error>
        ensures writes { WritesTree W.Sink W.takes_memory (Some (bin bytes.now)) (sink_of self.old) (sink_of self.new) result }
        ensures marker { NoneAtMarker W.Sink (sink_of self.old) (sink_of self.new) result }
        ensures error { IfErr result (OfLength (2 ^ 32 ≤ length bytes.now)) }
        ensures keeps { Keeps W.Sink self.old self.new }
        ensures refused { StaysAtRefusal self.old self.new result }
        ensures long { 2 ^ 32 ≤ length bytes.now → RefusesLength self.old self.new result }
    {
        fits_u32(bytes.len())?;
        answer(write_bin(&mut self.wr, bytes))
    }

    /// Writes an extension: its type, from -128 to 127, and its bytes.
    ///
    /// The Rust crate has no such call. It does what `extension().tag(t).bytes(b)` does, in one step. So a type
    /// that is written by it can say what becomes of its serializer.
    ///
    /// # Errors
    /// `InvalidDataModel("length past 32 bits")` for 2 ^ 32 bytes or more, and nothing is written; otherwise
    /// those of the sink.
    pub fn serialize_ext(&mut self, tag: i8, bytes: &[u8]) -> Result<(), Error>
        ensures writes { WritesTree W.Sink W.takes_memory (Some (extension tag bytes.now)) (sink_of self.old) (sink_of self.new) result }
        ensures marker { NoneAtMarker W.Sink (sink_of self.old) (sink_of self.new) result }
        ensures error { IfErr result (OfLength (2 ^ 32 ≤ length bytes.now)) }
        ensures keeps { Keeps W.Sink self.old self.new }
        ensures refused { StaysAtRefusal self.old self.new result }
        ensures long { 2 ^ 32 ≤ length bytes.now → RefusesLength self.old self.new result }
    {
        let n = fits_u32(bytes.len())?;
        self.put_ext_head(n, tag)?;
        self.put(bytes)
    }

    #[inline(always)]
    fn put_ext_head(&mut self, len: u32, tag: i8) -> Result<(), Error>
        ensures { WritesHead W.Sink (ext_head len tag) self.old self.new result }
    {
        answer(write_ext_meta(&mut self.wr, len, tag))
    }

    // Writes the head of `len` bytes.
    #[inline(always)]
    pub(crate) fn put_bin_head(&mut self, len: u32) -> Result<(), Error>
        ensures { WritesHead W.Sink (canon_head (Bin len)) self.old self.new result }
    {
        answer(write_bin_len(&mut self.wr, len))
    }
}
