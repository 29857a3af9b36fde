//! Opening lists, maps, tuples, structs and variants: the head is written, and a compound writes the parts. And variants without parts.
ghost use Rattle.std.specs.Prelude.{◌≡◌, ◌+◌, ◌≤◌, ◌<◌, ◌^◌, ◌||◌, ◌∷◌, [], true, false, OnOk, IfOk, IfErr, Some, length, ◌++◌};
ghost use Rattle.std.specs.Borrow.{sem};
ghost use Rattle.rmp_encode.specs.Going.{Rests, head_at};
ghost use Rattle.rmp_encode.specs.Promises.{OpensParts, WritesItems};
ghost use Rattle.rmp_encode.specs.Refusals.{OfParts, RefusesLength, AnyLong, OfLength};
ghost use Rattle.rmp_encode.specs.Ser.{sink_of, settings_of};
ghost use Rattle.rmp_encode.specs.Trees.{tree_of, sequence_of, mapping_of, tuple_of, field_parts, structure_of, newtype_variant_of, tuple_variant_of};
ghost use Rattle.rmp_encode.specs.Trees.{map_head, struct_variant_of, variant_head, variant_items};
ghost use Rattle.rmp_encode.specs.Writes.{Keeps, NoneAtMarker, WritesTree, StaysAtRefusal};
ghost use Rattle.std.specs.List.{flat_map};
ghost use Rattle.rmp_wire.specs.Msg.{text};
ghost use Rattle.rmp_wire.specs.Spelling.{canon};
ghost use Rattle.rmp_encode.specs.Markers.{items_of, value_of, InOrder};

use crate::compound::Compound;
use crate::error::Error;
use crate::length::fits_u32;
use crate::ser::Serialize;
use crate::serializer::Serializer;
use crate::tuple::Tuple;
use crate::unknown_length::MaybeUnknownLengthCompound;
use rmp_wire::Sink;
use rmp_wire::config::SerializerConfig;

// The bytes that a buffer has room for at first.
const ROOM: usize = 128;

impl<W: Sink, C: SerializerConfig> Serializer<W, C> {
    ghost use Rattle.rmp_encode.specs.Opens.{head_items, inside, reference, left_of, is_map, is_sound, owed, twice, IsLong, IsMapLong, IsOpen, MayOpen, Stays};

    // A serializer with the same settings and an empty buffer, which has room unless out of memory.
    fn buffer(&self) -> Serializer<Vec<u8>, C>
        ensures settings { settings_of result ≡ settings_of self.now }
        ensures empty { (sink_of result).items ≡ [] }
    {
        let mut bytes = self.empty();
        let _reserved = bytes.reserve(ROOM);
        self.over(bytes)
    }

    /// Opens a list of `len` elements, or of an unknown number (`None`). `serialize_element` writes each, and
    /// then `end` closes the list.
    ///
    /// # Errors
    /// `InvalidDataModel` for 2 ^ 32 elements or more, and nothing is written; otherwise those of the sink.
    #[inline(always)]
    pub fn serialize_seq(
        &mut self,
        len: Option<usize>,
    ) -> Result<MaybeUnknownLengthCompound<'_, W, C>, Error>
        ensures* refused { sem 𝓛 (Rests W.row C.row W.Sink reference (head_items false len)
            (MayOpen len) (IsLong len) sequence_of self.entry result) }
        ensures same_reference { IfOk result (λ q. reference q ≡ self.entry.ghost_name) }
        ensures kind { IfOk result (λ q. is_map q ≡ false) }
        ensures owed { IfOk result (λ q. owed q ≡ 0) }
        ensures sound { IfOk result (λ q. is_sound q ≡ true) }
        ensures fits { OnOk result (MayOpen len) }
        ensures left { IfOk result (λ q. left_of q ≡ len) }
        ensures opened { IfOk result (λ q. (all : _) → IsLong len all → IsOpen W.Sink self.old (tree_of (settings_of self.old) (sequence_of all)) all q) }
        ensures stays { IfOk result (λ q. Stays len self.old (inside q)) }
        ensures keeps { IfOk result (λ q. Keeps W.Sink self.old (inside q)) }
    {
        let Some(n) = len else {
            let buffer = self.buffer();
            return Ok(MaybeUnknownLengthCompound {
                se: self,
                buffer: Some(buffer),
                count: 0,
                pairs: false,
                sound: true,
            });
        };
        self.put_len(false, n)?;
        Ok(MaybeUnknownLengthCompound {
            se: self,
            buffer: None,
            count: n as u64,
            pairs: false,
            sound: true,
        })
    }

    /// Opens a map of `len` pairs, or of an unknown number (`None`). `serialize_key` and `serialize_value`
    /// write each pair, and then `end` closes the map.
    ///
    /// # Errors
    /// `InvalidDataModel` for 2 ^ 32 pairs or more, and nothing is written; otherwise those of the sink.
    #[inline(always)]
    pub fn serialize_map(
        &mut self,
        len: Option<usize>,
    ) -> Result<MaybeUnknownLengthCompound<'_, W, C>, Error>
        ensures* refused { sem 𝓛 (Rests W.row C.row W.Sink reference (head_items true len)
            (MayOpen len) (IsMapLong len) mapping_of self.entry result) }
        ensures same_reference { IfOk result (λ q. reference q ≡ self.entry.ghost_name) }
        ensures kind { IfOk result (λ q. is_map q ≡ true) }
        ensures owed { IfOk result (λ q. owed q ≡ 0) }
        ensures sound { IfOk result (λ q. is_sound q ≡ true) }
        ensures fits { OnOk result (MayOpen len) }
        ensures left { IfOk result (λ q. left_of q ≡ twice len) }
        ensures opened { IfOk result (λ q. (all : _) → IsMapLong len all → IsOpen W.Sink self.old (tree_of (settings_of self.old) (mapping_of all)) all q) }
        ensures stays { IfOk result (λ q. Stays len self.old (inside q)) }
        ensures keeps { IfOk result (λ q. Keeps W.Sink self.old (inside q)) }
    {
        let Some(n) = len else {
            let buffer = self.buffer();
            return Ok(MaybeUnknownLengthCompound {
                se: self,
                buffer: Some(buffer),
                count: 0,
                pairs: true,
                sound: true,
            });
        };
        self.put_len(true, n)?;
        Ok(MaybeUnknownLengthCompound {
            se: self,
            buffer: None,
            count: n as u64 + n as u64,
            pairs: true,
            sound: true,
        })
    }
}

impl<W: Sink, C: SerializerConfig> Serializer<W, C> {
    ghost use Rattle.rmp_encode.specs.Tuples.{inside, reference, left_of, is_sound, IsTupling};

    /// Opens a tuple of `len` elements. `serialize_element` writes each, and then `end` closes the tuple.
    ///
    /// # Errors
    /// `InvalidDataModel` for 2 ^ 32 elements or more, and nothing is written; otherwise those of the sink.
    #[inline(always)]
    pub fn serialize_tuple(&mut self, len: usize) -> Result<Tuple<'_, W, C>, Error>
        ensures* refused { sem 𝓛 (Rests W.row C.row W.Sink reference (head_at false len ∷ []) (len < 2 ^ 32)
            (λ all. length all ≡ len) tuple_of self.entry result) }
        ensures same_reference { IfOk result (λ q. reference q ≡ self.entry.ghost_name) }
        ensures fits { OnOk result (len < 2 ^ 32) }
        ensures left { IfOk result (λ q. left_of q ≡ len) }
        ensures sound { IfOk result (λ q. is_sound q ≡ true) }
        ensures opened { IfOk result (λ q. (all : _) → length all ≡ len → IsTupling W.Sink self.old (tree_of (settings_of self.old) (tuple_of all)) all q) }
        ensures keeps { IfOk result (λ q. Keeps W.Sink self.old (inside q)) }
    {
        let n = fits_u32(len)?;
        if self.forces_all() {
            let kept = self.empty();
            return Ok(Tuple {
                se: self,
                kept: Some(kept),
                probing: true,
                len: n,
                left: len,
                sound: true,
            });
        }
        self.put_head(false, n)?;
        Ok(Tuple {
            se: self,
            kept: None,
            probing: false,
            len: n,
            left: len,
            sound: true,
        })
    }
}

impl<W: Sink, C: SerializerConfig> Serializer<W, C> {
    ghost use Rattle.rmp_encode.specs.Compounds.{inside, reference, left_of, has_fields, is_sound, IsFilling};

    /// Opens a tuple struct of `len` elements, which is written as a list.
    ///
    /// # Errors
    ///
    /// `InvalidDataModel` for 2 ^ 32 elements or more, and nothing is written; otherwise those of the sink.
    pub fn serialize_tuple_struct(
        &mut self,
        _name: &'static str,
        len: usize,
    ) -> Result<Compound<'_, W, C>, Error>
        ensures* refused { sem 𝓛 (Rests W.row C.row W.Sink reference (head_at false len ∷ []) (len < 2 ^ 32)
            (λ all. length all ≡ len) sequence_of self.entry result) }
        ensures same_reference { IfOk result (λ q. reference q ≡ self.entry.ghost_name) }
        ensures fits { OnOk result (len < 2 ^ 32) }
        ensures left { IfOk result (λ q. left_of q ≡ len) }
        ensures kind { IfOk result (λ q. has_fields q ≡ false) }
        ensures sound { IfOk result (λ q. is_sound q ≡ true) }
        ensures opened { IfOk result (λ q. (all : _) → length all ≡ len → IsFilling W.Sink self.old (tree_of (settings_of self.old) (sequence_of all)) all q) }
        ensures keeps { IfOk result (λ q. Keeps W.Sink self.old (inside q)) }
    {
        self.put_len(false, len)?;
        Ok(Compound {
            se: self,
            left: len,
            fields: false,
            sound: true,
        })
    }

    /// Opens a struct of `len` fields, which is written as the list of their values, or with names as a map.
    ///
    /// # Errors
    ///
    /// `InvalidDataModel` for 2 ^ 32 fields or more, and nothing is written; otherwise those of the sink.
    pub fn serialize_struct(
        &mut self,
        _name: &'static str,
        len: usize,
    ) -> Result<Compound<'_, W, C>, Error>
        ensures* refused { sem 𝓛 (Rests W.row C.row W.Sink reference (head_at (settings_of self.old).named len ∷ []) (len < 2 ^ 32)
            (λ fs. length fs ≡ len) structure_of self.entry result) }
        ensures same_reference { IfOk result (λ q. reference q ≡ self.entry.ghost_name) }
        ensures fits { OnOk result (len < 2 ^ 32) }
        ensures left { IfOk result (λ q. left_of q ≡ len) }
        ensures kind { IfOk result (λ q. has_fields q ≡ true) }
        ensures sound { IfOk result (λ q. is_sound q ≡ true) }
        ensures opened { IfOk result (λ q. (fs : _) → length fs ≡ len
            → IsFilling W.Sink self.old (tree_of (settings_of self.old) (structure_of fs)) (flat_map (field_parts (settings_of self.old).named) fs) q) }
        ensures keeps { IfOk result (λ q. Keeps W.Sink self.old (inside q)) }
    {
        self.put_len(self.is_named(), len)?;
        Ok(Compound {
            se: self,
            left: len,
            fields: true,
            sound: true,
        })
    }

    // Writes what precedes a variant's content: the head of a map of one pair, and the name.
    #[inline(always)]
    fn put_variant(&mut self, name: &str) -> Result<(), Error>
        requires { length name.now < 2 ^ 32 }
        ensures { WritesItems W.Sink (map_head 1 ∷ canon (text name.now) ∷ []) (variant_head name.now) self.old self.new result }
    {
        self.put_head(true, 1)?;
        self.put_word(name)
    }

    // Writes what precedes a variant's content, and the content's head, of a list or a map.
    //
    // Nothing is written where the name or the number is refused.
    #[inline(always)]
    pub(crate) fn open_variant(
        &mut self,
        variant: &str,
        pairs: bool,
        len: usize,
    ) -> Result<(), Error>
        ensures { OpensParts W.Sink ((length variant.now < 2 ^ 32) × (len < 2 ^ 32)) (length variant.now ∷ len ∷ [])
            (variant_items variant.now (head_at pairs len)) (variant_head variant.now ++ head_at pairs len) self.old self.new result }
    {
        let count = fits_u32(len)?;
        fits_u32(variant.len())?;
        self.put_variant(variant)?;
        self.put_head(pairs, count)
    }

    /// Writes a variant without content: its name, as a text.
    ///
    /// # Errors
    ///
    /// `InvalidDataModel` where the name has 2 ^ 32 bytes or more, and nothing is written; otherwise those of
    /// the sink.
    #[inline(always)]
    pub fn serialize_unit_variant(
        &mut self,
        _name: &'static str,
        _index: u32,
        variant: &'static str,
    ) -> Result<(), Error>
        ensures writes { WritesTree W.Sink W.takes_memory (Some (text variant.now)) (sink_of self.old) (sink_of self.new) result }
        ensures marker { NoneAtMarker W.Sink (sink_of self.old) (sink_of self.new) result }
        ensures error { IfErr result (OfLength (AnyLong (length variant.now ∷ []))) }
        ensures keeps { Keeps W.Sink self.old self.new }
        ensures refused { StaysAtRefusal self.old self.new result }
        ensures long { 2 ^ 32 ≤ length variant.now → RefusesLength self.old self.new result }
    {
        self.put_word(variant)
    }

    /// Writes a variant with one value as its content: a map of one pair, from its name to the value.
    ///
    /// # Errors
    ///
    /// `InvalidDataModel` where the name has 2 ^ 32 bytes or more, and nothing is written; otherwise those of
    /// the value's type and of the sink.
    #[inline(always)]
    pub fn serialize_newtype_variant<T: Serialize>(
        &mut self,
        _name: &'static str,
        _index: u32,
        variant: &'static str,
        value: &T,
    ) -> Result<(), Error>
        ensures writes { WritesTree W.Sink (T.takes_memory (settings_of self.old) || W.takes_memory)
            (tree_of (settings_of self.old) (newtype_variant_of variant.now (T.data_of value.now (settings_of self.old).human))) (sink_of self.old)
            (sink_of self.new) result }
        ensures keeps { Keeps W.Sink self.old self.new }
        ensures long { 2 ^ 32 ≤ length variant.now → RefusesLength self.old self.new result }
        ensures marker { InOrder W.Sink (items_of (map_head 1 ∷ canon (text variant.now) ∷ []) ++ value_of (settings_of self.old)
            (T.data_of value.now (settings_of self.old).human) (T.marks value.now (settings_of self.old)) ∷ []) (sink_of self.old) (sink_of self.new) result }
        ensures error { IfErr result (OfParts (AnyLong (length variant.now ∷ [])) (T.refuses value.now ∷ [])) }
        ensures value { OnOk result (T.is_value value.now) }
    {
        fits_u32(variant.len())?;
        self.put_variant(variant)?;
        value.serialize(self)
    }

    /// Opens a variant whose content is like a tuple struct of `len` elements: a map of one pair, from its name
    /// to the list.
    ///
    /// # Errors
    ///
    /// `InvalidDataModel` for 2 ^ 32 elements or more, or a name of as many bytes, and nothing is written;
    /// otherwise those of the sink.
    pub fn serialize_tuple_variant(
        &mut self,
        _name: &'static str,
        _index: u32,
        variant: &'static str,
        len: usize,
    ) -> Result<Compound<'_, W, C>, Error>
        ensures* refused { sem 𝓛 (Rests W.row C.row W.Sink reference (variant_items variant.now (head_at false len))
            ((length variant.now < 2 ^ 32) × (len < 2 ^ 32)) (λ all. length all ≡ len)
            (tuple_variant_of variant.now) self.entry result) }
        ensures same_reference { IfOk result (λ q. reference q ≡ self.entry.ghost_name) }
        ensures fits { OnOk result ((length variant.now < 2 ^ 32) × (len < 2 ^ 32)) }
        ensures left { IfOk result (λ q. left_of q ≡ len) }
        ensures kind { IfOk result (λ q. has_fields q ≡ false) }
        ensures sound { IfOk result (λ q. is_sound q ≡ true) }
        ensures opened { IfOk result (λ q. (all : _) → length all ≡ len
            → IsFilling W.Sink self.old (tree_of (settings_of self.old) (tuple_variant_of variant.now all)) all q) }
        ensures keeps { IfOk result (λ q. Keeps W.Sink self.old (inside q)) }
    {
        self.open_variant(variant, false, len)?;
        Ok(Compound {
            se: self,
            left: len,
            fields: false,
            sound: true,
        })
    }

    /// Opens a variant whose content is like a struct of `len` fields: a map of one pair, from its name to what
    /// the struct is.
    ///
    /// # Errors
    ///
    /// `InvalidDataModel` for 2 ^ 32 fields or more, or a name of as many bytes, and nothing is written;
    /// otherwise those of the sink.
    pub fn serialize_struct_variant(
        &mut self,
        _name: &'static str,
        _index: u32,
        variant: &'static str,
        len: usize,
    ) -> Result<Compound<'_, W, C>, Error>
        ensures* refused { sem 𝓛 (Rests W.row C.row W.Sink reference (variant_items variant.now (head_at (settings_of self.old).named len))
            ((length variant.now < 2 ^ 32) × (len < 2 ^ 32)) (λ fs. length fs ≡ len)
            (struct_variant_of variant.now) self.entry result) }
        ensures same_reference { IfOk result (λ q. reference q ≡ self.entry.ghost_name) }
        ensures fits { OnOk result ((length variant.now < 2 ^ 32) × (len < 2 ^ 32)) }
        ensures left { IfOk result (λ q. left_of q ≡ len) }
        ensures kind { IfOk result (λ q. has_fields q ≡ true) }
        ensures sound { IfOk result (λ q. is_sound q ≡ true) }
        ensures opened { IfOk result (λ q. (fs : _) → length fs ≡ len
            → IsFilling W.Sink self.old (tree_of (settings_of self.old) (struct_variant_of variant.now fs))
            (flat_map (field_parts (settings_of self.old).named) fs) q) }
        ensures keeps { IfOk result (λ q. Keeps W.Sink self.old (inside q)) }
    {
        self.open_variant(variant, self.is_named(), len)?;
        Ok(Compound {
            se: self,
            left: len,
            fields: true,
            sound: true,
        })
    }
}
