//! Opening lists, bytes, maps, structs and enums: the head is consumed, and an access reads the parts.
ghost use Rattle.std.specs.Prelude.{◌≡◌, ◌≤◌, length, IfOk, IfErr, ◌≢◌, ◌<◌, true};
ghost use Rattle.std.specs.Borrow.{sem, RestsIfErr};
ghost use Rattle.rmp_decode.specs.contracts.deserializer.Deserializer.{the_row};
ghost use Rattle.rmp_decode.specs.FieldAccess.{OpensStruct, struct_reference};
ghost use Rattle.rmp_decode.specs.Fields.{TakesFieldsHead, FailsToOpenFields};
ghost use Rattle.rmp_decode.specs.Maps.{OpensMap, TakesMapHead, FailsToOpenMap, map_reference};
ghost use Rattle.rmp_decode.specs.Names.{bytes_of};
ghost use Rattle.rmp_decode.specs.Seq.{TakesSeqHead, Opens, FailsToOpen, reference_of};
ghost use Rattle.rmp_decode.specs.Variants.{OpensVariant, FailsToOpenVariant, variant_reference};

use crate::access::field_access::FieldAccess;
use crate::access::map::MapAccess;
use crate::access::parts::inner_room;
use crate::access::seq::SeqAccess;
use crate::access::variant::Variant;
use crate::content::{ReadContent, Slices};
use crate::deserializer::Deserializer;
use crate::deserializer::heads::Levels;
use crate::deserializer::peek::{BinHead, ListHead, MapHead};
use crate::error::Error;
use crate::text::Text;
use core::mem::replace_with;
use rmp_wire::config::SerializerConfig;
use rmp_wire::{ReadSlice, Source};

impl<R: Source, C: SerializerConfig> Deserializer<R, C> {
    // Consumes the head of a list or of bytes, out of line.
    #[inline(never)]
    fn slow_seq(&mut self) -> Result<(bool, u32), Error>
        ensures { TakesSeqHead R.Source self.old self.new result }
    {
        if let Some(len) = self.take(BinHead) {
            return Ok((true, len));
        }
        match self.opening(Levels::Lists) {
            Ok((_, head)) => match head.as_seq() {
                Some(opened) => Ok(opened),
                None => Err(Error::Syntax(Text::InvalidType)),
            },
            Err(e) => Err(e),
        }
    }

    // Consumes the head of a list or of bytes: that of a short list by the fast path. By `open_row(false)`, what opens a list would be larger
    // before it is optimized.
    #[inline(always)]
    pub(crate) fn open_tuple(&mut self) -> Result<(bool, u32), Error>
        ensures { TakesSeqHead R.Source self.old self.new result }
    {
        match self.take_nested(ListHead) {
            Some(len) => Ok((false, len)),
            None => self.cold_seq(),
        }
    }

    // Consumes the head of a list or of bytes: that of a short list by the fast path, and with `bytes` that of bytes
    // too, unless reading is strict.
    #[inline(always)]
    pub(crate) fn open_row(&mut self, bytes: bool) -> Result<(bool, u32), Error>
        ensures { TakesSeqHead R.Source self.old self.new result }
    {
        if let Some(len) = self.take_nested(ListHead) {
            return Ok((false, len));
        }
        if !bytes || self.strict {
            return self.cold_seq();
        }
        match self.take(BinHead) {
            Some(len) => Ok((true, len)),
            None => self.cold_seq(),
        }
    }

    // Consumes the head of a list or of bytes out of line, on a moved reader.
    #[inline(always)]
    fn cold_seq(&mut self) -> Result<(bool, u32), Error>
        ensures { TakesSeqHead R.Source self.old self.new result }
    {
        replace_with(
            self,
            (),
            |mut de: Deserializer<R, C>, _none: ()|
                ensures { TakesSeqHead R.Source de result.0 result.1 }
            {
                let opened = de.slow_seq();
                (de, opened)
            },
        )
    }

    /// Opens a list, or bytes as the list of their numbers.
    ///
    /// # Errors
    /// `Syntax("invalid type")` for another kind, and `DepthLimitExceeded` for a list that nests too deep.
    #[inline(always)]
    pub fn deserialize_seq(&mut self) -> Result<SeqAccess<'_, R, C>, Error>
        ensures* refused { sem 𝓛 (RestsIfErr (the_row R.row C.row) self.entry reference_of result
            (λ last. IfErr result (FailsToOpen R.Source self.old last))) }
        ensures same_reference { IfOk result (λ s. reference_of s ≡ self.entry.ghost_name) }
        ensures opened { IfOk result (Opens R.Source self.old) }
    {
        let room = self.room;
        match self.open_tuple() {
            Ok((bytes, left)) => Ok(SeqAccess {
                de: self,
                left,
                count: left,
                inner: inner_room(room, bytes),
                bytes,
                sound: true,
            }),
            Err(e) => Err(e),
        }
    }

    /// Opens a list, or bytes as the list of their numbers, for a tuple. How many elements it has is up to the calls
    /// that read them, so `len` isn't used.
    ///
    /// # Errors
    /// Those of `deserialize_seq`.
    #[inline(always)]
    pub fn deserialize_tuple(&mut self, _len: usize) -> Result<SeqAccess<'_, R, C>, Error>
        ensures* refused { sem 𝓛 (RestsIfErr (the_row R.row C.row) self.entry reference_of result
            (λ last. IfErr result (FailsToOpen R.Source self.old last))) }
        ensures same_reference { IfOk result (λ s. reference_of s ≡ self.entry.ghost_name) }
        ensures opened { IfOk result (Opens R.Source self.old) }
    {
        self.deserialize_seq()
    }

    /// Opens a list, or bytes as the list of their numbers, for a tuple struct. Its name isn't used.
    ///
    /// # Errors
    /// Those of `deserialize_seq`.
    #[inline(always)]
    pub fn deserialize_tuple_struct(
        &mut self,
        _name: &str,
        len: usize,
    ) -> Result<SeqAccess<'_, R, C>, Error>
        ensures* refused { sem 𝓛 (RestsIfErr (the_row R.row C.row) self.entry reference_of result
            (λ last. IfErr result (FailsToOpen R.Source self.old last))) }
        ensures same_reference { IfOk result (λ s. reference_of s ≡ self.entry.ghost_name) }
        ensures opened { IfOk result (Opens R.Source self.old) }
    {
        self.deserialize_tuple(len)
    }

    // Consumes the head of a map: that of a short one by the fast path.
    #[inline(always)]
    fn open_map(&mut self) -> Result<u32, Error>
        ensures { TakesMapHead R.Source self.old self.new result }
    {
        match self.take_nested(MapHead) {
            Some(len) => Ok(len),
            None => self.slow_map(),
        }
    }

    // Consumes the head of a map, out of line.
    #[inline(never)]
    fn slow_map(&mut self) -> Result<u32, Error>
        ensures { TakesMapHead R.Source self.old self.new result }
    {
        match self.opening(Levels::Maps) {
            Ok((_, head)) => match head.as_map() {
                Some(opened) => Ok(opened),
                None => Err(Error::Syntax(Text::InvalidType)),
            },
            Err(e) => Err(e),
        }
    }

    /// Opens a map.
    ///
    /// # Errors
    /// `Syntax("invalid type")` for another kind, and `DepthLimitExceeded` for a map that nests too deep.
    #[inline(always)]
    pub fn deserialize_map(&mut self) -> Result<MapAccess<'_, R, C>, Error>
        ensures* refused { sem 𝓛 (RestsIfErr (the_row R.row C.row) self.entry map_reference result
            (λ last. IfErr result (FailsToOpenMap R.Source self.old last))) }
        ensures same_reference { IfOk result (λ a. map_reference a ≡ self.entry.ghost_name) }
        ensures opened { IfOk result (OpensMap R.Source self.old) }
    {
        let room = self.room;
        match self.open_map() {
            Ok(left) => Ok(MapAccess {
                de: self,
                left,
                count: left,
                inner: inner_room(room, false),
                owes: false,
                sound: true,
            }),
            Err(e) => Err(e),
        }
    }

    // Consumes the head of a list, of bytes or of a map: that of a short list or a short map by the fast path.
    #[inline(always)]
    pub(crate) fn open_struct(&mut self) -> Result<(Option<bool>, u32), Error>
        ensures { TakesFieldsHead R.Source self.old self.new result }
    {
        match self.take_nested(ListHead) {
            Some(len) => Ok((Some(false), len)),
            None => match self.take_nested(MapHead) {
                Some(len) => Ok((None, len)),
                None => self.slow_struct(),
            },
        }
    }

    // Consumes the head of a list, of bytes or of a map, out of line.
    #[inline(never)]
    fn slow_struct(&mut self) -> Result<(Option<bool>, u32), Error>
        ensures { TakesFieldsHead R.Source self.old self.new result }
    {
        match self.opening(Levels::Parts) {
            Ok((_, head)) => match head.as_fields() {
                Some(opened) => Ok(opened),
                None => Err(Error::Syntax(Text::InvalidType)),
            },
            Err(e) => Err(e),
        }
    }

    /// Opens the fields of a struct: a list, bytes as the list of their numbers, or a map from the names, of which
    /// there may be 128. The struct's name isn't used.
    ///
    /// # Errors
    /// `Syntax("invalid type")` for another kind, and `DepthLimitExceeded` for a list or a map that nests too deep.
    #[inline(always)]
    pub fn deserialize_struct<'x>(
        &'x mut self,
        _name: &str,
        names: &'x [&'x str],
    ) -> Result<FieldAccess<'x, R, C>, Error>
        requires few { length names.now ≤ 128 }
        ensures* refused { sem 𝓛 (RestsIfErr (the_row R.row C.row) self.entry struct_reference result
            (λ last. IfErr result (FailsToOpenFields R.Source self.old last))) }
        ensures same_reference { IfOk result (λ a. struct_reference a ≡ self.entry.ghost_name) }
        ensures opened { IfOk result (OpensStruct R.Source (bytes_of names.now) self.old) }
    {
        let room = self.room;
        match self.open_struct() {
            Ok((kind, left)) => {
                let bytes = kind.unwrap_or(false);
                Ok(FieldAccess {
                    de: self,
                    names,
                    left,
                    count: left,
                    inner: inner_room(room, bytes),
                    is_map: kind.is_none(),
                    bytes,
                    owes: false,
                    sound: true,
                    met: 0,
                })
            }
            Err(e) => Err(e),
        }
    }

    /// Reads a variant's name, and returns its place among the names with the access to the content. A variant is its
    /// name, or a map of one pair from the name to the content. A name is a text, bytes, or a number that is its place.
    ///
    /// Take the result apart where the call is: `match de.deserialize_enum(&names) { Ok((0, variant)) => .. }`.
    ///
    /// # Errors
    /// `LengthMismatch` with the number of pairs if a map hasn't one; `DepthLimitExceeded` for a map that nests too
    /// deep; `Utf8Error` for a name that is a text but not UTF-8; `Syntax("unknown variant")` for any other text, bytes
    /// or number from 0 on that is none of the names; and `Syntax("invalid type")` for a negative number and for
    /// another kind.
    #[inline(always)]
    pub fn deserialize_enum<'de>(
        &mut self,
        names: &[&str],
    ) -> Result<(usize, Variant<'_, R, C>), Error>
    where
        R: ReadSlice<'de>,
        ensures* refused { sem 𝓛 (RestsIfErr (the_row R.row C.row) self.entry (λ p. variant_reference p.1) result
            (λ last. IfErr result (FailsToOpenVariant R.Source (bytes_of names.now) self.old last))) }
        ensures same_reference { IfOk result (λ p. variant_reference p.1 ≡ self.entry.ghost_name) }
        ensures opened { IfOk result (λ p. OpensVariant R.Source (bytes_of names.now) p.0 self.old p.1) }
        ensures below { IfOk result (λ p. p.0 < length names.now) }
        ensures memory { R.lends ≡ true → IfErr result (λ e. e ≢ Error.OutOfMemory) }
    {
        self.deserialize_enum_by::<Slices<'de>>(names)
    }

    /// Reads a variant's name, as `deserialize_enum` does, for recursive enums. `P` reads payloads: a recursive
    /// function can't have a bound that names a lifetime, so its first caller passes `Slices`.
    ///
    /// # Errors
    /// Those of `deserialize_enum`.
    #[inline(always)]
    pub fn deserialize_enum_by<P: ReadContent<R>>(
        &mut self,
        names: &[&str],
    ) -> Result<(usize, Variant<'_, R, C>), Error>
        ensures* refused { sem 𝓛 (RestsIfErr (the_row R.row C.row) self.entry (λ p. variant_reference p.1) result
            (λ last. IfErr result (FailsToOpenVariant R.Source (bytes_of names.now) self.old last))) }
        ensures same_reference { IfOk result (λ p. variant_reference p.1 ≡ self.entry.ghost_name) }
        ensures opened { IfOk result (λ p. OpensVariant R.Source (bytes_of names.now) p.0 self.old p.1) }
        ensures below { IfOk result (λ p. p.0 < length names.now) }
        ensures memory { P.lends ≡ true → IfErr result (λ e. e ≢ Error.OutOfMemory) }
    {
        let inner = inner_room(self.room, false);
        match self.open_variant::<P>(names) {
            Ok((place, bare)) => Ok((
                place,
                Variant {
                    de: self,
                    bare,
                    inner,
                },
            )),
            Err(e) => Err(e),
        }
    }
}
