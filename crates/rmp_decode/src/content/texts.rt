//! Messages with a payload: texts, characters, bytes, extensions, and names.
ghost use Rattle.std.specs.Prelude.{◌≡◌, ◌≢◌, Bool, true, false, IfErr, ◌≤◌, ◌<◌, IfOk, if◌then◌else◌, None};
ghost use Rattle.std.specs.String.{string_bytes};
ghost use Rattle.rmp_decode.specs.Buffers.{a_buffer, BufferLeaves, IsBuffer, ListAfterHead, ReadsBuffer, ReadsByteList, ReadsNumber};
ghost use Rattle.rmp_decode.specs.Buffers.{RefusesList, RefusesListIn};
ghost use Rattle.rmp_decode.specs.Consumed.{RefusalLeaves};
ghost use Rattle.rmp_decode.specs.Content.{IsTextHead, IsRawHead, RefusesLeaf, not_raw, never_refused, not_char, not_string};
ghost use Rattle.rmp_decode.specs.Content.{not_str, not_bytes, IsBufferHead, not_buffer, IsExtHead, not_ext, RefusesContent};
ghost use Rattle.rmp_decode.specs.Law.{Lawful};
ghost use Rattle.rmp_decode.specs.Kinds.{raw_head, raw_msg};
ghost use Rattle.rmp_decode.specs.Read.{IsRaw, IsString, IsChar, IsExt};
ghost use Rattle.std.specs.Borrow.{sem, RestsIfErr};
ghost use Rattle.rmp_decode.specs.contracts.deserializer.Deserializer.{the_row};
ghost use Rattle.rmp_decode.specs.Seq.{in_bytes, reference_of};
ghost use Rattle.rmp_decode.specs.State.{is_failed, kept_of};
ghost use Rattle.rmp_decode.specs.declared.deserializer.Kept.TheVariants.{Nothing};
ghost use Rattle.rmp_decode.specs.Names.{IsName, IsNameHead};
ghost use Rattle.rmp_decode.specs.Payloads.{ReadsMessage, ReadsRest, a_raw, some_bytes, a_str, a_string, a_char, an_ext, a_name};
ghost use Rattle.rmp_wire.specs.Types.{buffer_bytes};

use crate::access::names::{next_place, place_below};
use crate::access::parts::{inner_room, levels_outside};
use crate::access::seq::SeqAccess;
use crate::content::Slices;
use crate::content::chars::char_taken;
use crate::content::cold::read_cold;
use crate::content::pieces::{next_bytes, next_ext, next_raw, next_str, next_string, owned};
use crate::de::Deserialize;
use crate::deserializer::Deserializer;
use crate::deserializer::peek::{BinHead, ExtHead, RawHead, TextHead};
use crate::error::Error;
use crate::text::Text;
use rmp_wire::config::SerializerConfig;
use rmp_wire::{ByteBuf, Bytes, Ext, Head, ReadSlice, Source};

impl<R: Source, C: SerializerConfig> Deserializer<R, C> {
    ghost use Rattle.rmp_decode.specs.Names.{bytes_of};

    /// Reads a text, which needn't be UTF-8, or bytes, into a vector, and returns whether it was a text.
    ///
    /// # Errors
    /// `Syntax("invalid type")` for another kind.
    pub fn deserialize_raw<'de>(&mut self) -> Result<(bool, Vec<u8>), Error>
    where
        R: ReadSlice<'de>,
        ensures law { Lawful R.Source (λ m p. m ≡ raw_msg p.0 p.1.items) self.old self.new result }
        ensures exact { RefusesLeaf R.Source IsRawHead not_raw never_refused self.old self.new result }
        ensures taken { RefusalLeaves R.Source IsRawHead self.old self.new result }
    {
        match self.take(RawHead) {
            Some((is_text, len)) => self.raw_payload(is_text, len),
            None => self.slow_raw(),
        }
    }

    // Copies the payload of a text or of bytes, `len` bytes, into a vector.
    #[inline(always)]
    fn raw_payload<'de>(&mut self, is_text: bool, len: u32) -> Result<(bool, Vec<u8>), Error>
    where
        R: ReadSlice<'de>,
        ensures { ReadsRest R.Source a_raw (raw_head is_text len) self.old self.new result }
    {
        let read = next_raw(self.alloc, &mut self.reader, is_text, len);
        self.failed = read.is_err();
        read
    }

    // The slow path of `deserialize_raw`.
    #[inline(never)]
    fn slow_raw<'de>(&mut self) -> Result<(bool, Vec<u8>), Error>
    where
        R: ReadSlice<'de>,
        ensures { ReadsMessage R.Source a_raw self.old self.new result }
    {
        match self.head() {
            Ok((_, head)) => match head.as_raw() {
                Some((is_text, len)) => self.raw_payload(is_text, len),
                None => Err(Error::Syntax(Text::InvalidType)),
            },
            Err(e) => Err(e),
        }
    }

    /// Reads a text of one character.
    ///
    /// # Errors
    /// `Utf8Error` for a text that isn't UTF-8, and `Syntax("invalid value")` for a text of another number of
    /// characters.
    #[inline(always)]
    pub fn deserialize_char<'de>(&mut self) -> Result<char, Error>
    where
        R: ReadSlice<'de>,
        ensures law { Lawful R.Source IsChar self.old self.new result }
        ensures exact { RefusesLeaf R.Source IsTextHead not_raw not_char self.old self.new result }
        ensures taken { RefusalLeaves R.Source IsTextHead self.old self.new result }
        ensures memory { R.lends ≡ true → IfErr result (λ e. e ≢ Error.OutOfMemory) }
    {
        match self.take(TextHead) {
            Some(len) => self.char_payload(len),
            None => read_cold::<R, C, char, Slices<'de>>(self),
        }
    }

    // Reads the payload of a text, `len` bytes, as one character.
    #[inline(always)]
    fn char_payload<'de>(&mut self, len: u32) -> Result<char, Error>
    where
        R: ReadSlice<'de>,
        ensures { ReadsRest R.Source (a_char R.lends) (Head.Text len) self.old self.new result }
    {
        match char_taken::<R, Slices<'de>>(&mut self.reader, len) {
            Ok(c) => {
                self.failed = false;
                Ok(c)
            }
            Err(e) => Err(e),
        }
    }

    // The slow path of `deserialize_char`.
    #[inline(never)]
    pub(crate) fn slow_char<'de>(&mut self) -> Result<char, Error>
    where
        R: ReadSlice<'de>,
        ensures { ReadsMessage R.Source (a_char R.lends) self.old self.new result }
    {
        match self.head() {
            Ok((_, head)) => match head.as_text() {
                Some(len) => self.char_payload(len),
                None => Err(Error::Syntax(Text::InvalidType)),
            },
            Err(e) => Err(e),
        }
    }

    /// Reads a text or bytes, borrowed for the lifetime of the input. Allocates nothing.
    ///
    /// # Errors
    /// If the source doesn't lend its bytes, `Utf8Error` for a text that isn't UTF-8, and `Syntax("invalid type")` for
    /// any other.
    #[inline(always)]
    pub fn deserialize_bytes<'de>(&mut self) -> Result<&'de [u8], Error>
    where
        R: ReadSlice<'de>,
        ensures law { Lawful R.Source (λ m s. (R.lends ≡ true) × IsRaw m s.now) self.old self.new result }
        ensures exact { RefusesLeaf R.Source IsRawHead not_raw (not_bytes R.lends) self.old self.new result }
        ensures taken { RefusalLeaves R.Source IsRawHead self.old self.new result }
        ensures memory { R.lends ≡ true → IfErr result (λ e. e ≢ Error.OutOfMemory) }
    {
        match self.take(RawHead) {
            Some((is_text, len)) => self.bytes_payload(is_text, len),
            None => read_cold::<R, C, &'de [u8], Slices<'de>>(self),
        }
    }

    // Borrows the payload of a text or of bytes, `len` bytes.
    #[inline(always)]
    fn bytes_payload<'de>(&mut self, is_text: bool, len: u32) -> Result<&'de [u8], Error>
    where
        R: ReadSlice<'de>,
        ensures { ReadsRest R.Source (some_bytes R.lends) (raw_head is_text len) self.old self.new result }
    {
        match next_bytes(&mut self.reader, is_text, len) {
            Ok(bytes) => {
                self.failed = false;
                Ok(bytes)
            }
            Err(e) => Err(e),
        }
    }

    // The slow path of `deserialize_bytes`.
    #[inline(never)]
    pub(crate) fn slow_bytes<'de>(&mut self) -> Result<&'de [u8], Error>
    where
        R: ReadSlice<'de>,
        ensures { ReadsMessage R.Source (some_bytes R.lends) self.old self.new result }
    {
        match self.head() {
            Ok((_, head)) => match head.as_raw() {
                Some((is_text, len)) => self.bytes_payload(is_text, len),
                None => Err(Error::Syntax(Text::InvalidType)),
            },
            Err(e) => Err(e),
        }
    }

    /// Reads a text, or bytes that are UTF-8, borrowed for the lifetime of the input. Allocates nothing.
    ///
    /// # Errors
    /// `Utf8Error` for a text that isn't UTF-8, and `Syntax("invalid value")` for bytes that aren't. If the source
    /// doesn't lend its bytes, `Syntax("invalid type")` for bytes, and for a text that is UTF-8.
    #[inline(always)]
    pub fn deserialize_str<'de>(&mut self) -> Result<&'de str, Error>
    where
        R: ReadSlice<'de>,
        ensures law { Lawful R.Source (λ m s. (R.lends ≡ true) × IsString m s.now) self.old self.new result }
        ensures exact { RefusesLeaf R.Source IsRawHead not_raw (not_str R.lends) self.old self.new result }
        ensures taken { RefusalLeaves R.Source IsRawHead self.old self.new result }
        ensures memory { R.lends ≡ true → IfErr result (λ e. e ≢ Error.OutOfMemory) }
    {
        match self.take(TextHead) {
            Some(len) => self.str_payload(true, len),
            None => read_cold::<R, C, &'de str, Slices<'de>>(self),
        }
    }

    // Borrows the payload of a text or of bytes, `len` bytes, as UTF-8.
    #[inline(always)]
    fn str_payload<'de>(&mut self, is_text: bool, len: u32) -> Result<&'de str, Error>
    where
        R: ReadSlice<'de>,
        ensures { ReadsRest R.Source (a_str R.lends) (raw_head is_text len) self.old self.new result }
    {
        match next_str(&mut self.reader, is_text, len) {
            Ok(s) => {
                self.failed = false;
                Ok(s)
            }
            Err(e) => Err(e),
        }
    }

    // The slow path of `deserialize_str`.
    #[inline(never)]
    pub(crate) fn slow_str<'de>(&mut self) -> Result<&'de str, Error>
    where
        R: ReadSlice<'de>,
        ensures { ReadsMessage R.Source (a_str R.lends) self.old self.new result }
    {
        match self.head() {
            Ok((_, head)) => match head.as_raw() {
                Some((is_text, len)) => self.str_payload(is_text, len),
                None => Err(Error::Syntax(Text::InvalidType)),
            },
            Err(e) => Err(e),
        }
    }

    /// Reads a text, or bytes that are UTF-8.
    ///
    /// # Errors
    /// `Utf8Error` for a text that isn't UTF-8, and `Syntax("invalid value")` for bytes that aren't.
    #[inline(always)]
    pub fn deserialize_string<'de>(&mut self) -> Result<String, Error>
    where
        R: ReadSlice<'de>,
        ensures law { Lawful R.Source (λ m s. IsRaw m (string_bytes s)) self.old self.new result }
        ensures exact { RefusesLeaf R.Source IsRawHead not_raw not_string self.old self.new result }
        ensures taken { RefusalLeaves R.Source IsRawHead self.old self.new result }
    {
        match self.take(TextHead) {
            Some(len) => self.string_payload(true, len),
            None => self.slow_string(),
        }
    }

    // Copies the payload of a text or of bytes, `len` bytes, as UTF-8.
    #[inline(never)]
    pub(crate) fn string_payload<'de>(&mut self, is_text: bool, len: u32) -> Result<String, Error>
    where
        R: ReadSlice<'de>,
        ensures { ReadsRest R.Source a_string (raw_head is_text len) self.old self.new result }
    {
        let read = next_string(self.alloc, &mut self.reader, is_text, len);
        self.failed = read.is_err();
        read
    }

    // The slow path of `deserialize_string`.
    #[inline(never)]
    fn slow_string<'de>(&mut self) -> Result<String, Error>
    where
        R: ReadSlice<'de>,
        ensures { ReadsMessage R.Source a_string self.old self.new result }
    {
        match self.head() {
            Ok((_, head)) => match head.as_raw() {
                Some((is_text, len)) => self.string_payload(is_text, len),
                None => Err(Error::Syntax(Text::InvalidType)),
            },
            Err(e) => Err(e),
        }
    }

    /// Reads a text, which needn't be UTF-8, bytes, or a list of numbers up to 255, as bytes.
    ///
    /// # Errors
    /// `Syntax("invalid type")` for another kind, `DepthLimitExceeded` for a list that nests too deep, and for an
    /// element those of `deserialize_u8`.
    #[inline(always)]
    pub fn deserialize_byte_buf<'de>(&mut self) -> Result<Vec<u8>, Error>
    where
        R: ReadSlice<'de>,
        ensures law { Lawful R.Source (λ m v. IsBuffer m v.items) self.old self.new result }
        ensures exact { RefusesLeaf R.Source IsBufferHead not_raw not_buffer self.old self.new result }
        // A list is refused at its head if it nests too deep, and otherwise at an item.
        ensures list { is_failed self.old ≡ false → IfErr result (RefusesList R.Source self.old self.new) }
        ensures taken { is_failed self.old ≡ false → IfErr result (BufferLeaves R.Source self.old self.new) }
    {
        match self.take(BinHead) {
            Some(len) => self.byte_buf_payload(len),
            None => self.slow_byte_buf(),
        }
    }

    // Copies the payload of a text or of bytes, `len` bytes.
    #[inline(always)]
    fn byte_buf_payload<'de>(&mut self, len: u32) -> Result<Vec<u8>, Error>
    where
        R: ReadSlice<'de>,
        ensures { (is_text : Bool) → ReadsRest R.Source a_buffer (raw_head is_text len) self.old self.new result }
    {
        let read = owned(self.alloc, &mut self.reader, len as usize);
        self.failed = read.is_err();
        read
    }

    // The slow path of `deserialize_byte_buf`.
    #[inline(never)]
    fn slow_byte_buf<'de>(&mut self) -> Result<Vec<u8>, Error>
    where
        R: ReadSlice<'de>,
        ensures { ReadsBuffer R.Source self.old self.new result }
    {
        match self.head() {
            Ok((_, head)) => match head.as_raw() {
                Some((_, len)) => self.byte_buf_payload(len),
                None => match head.as_array() {
                    Some(len) => self.byte_list(len),
                    None => Err(Error::Syntax(Text::InvalidType)),
                },
            },
            Err(e) => Err(e),
        }
    }

    // Opens a list whose head was consumed.
    #[inline(always)]
    fn open_list(&mut self, len: u32) -> Result<SeqAccess<'_, R, C>, Error>
        ensures* refused { sem 𝓛 (RestsIfErr (the_row R.row C.row) self.entry reference_of result
            (λ last. IfErr result (λ e. (self.old.room ≤ 1) × (last ≡ self.old) × (e ≡ Error.DepthLimitExceeded)))) }
        ensures same_reference { IfOk result (λ s. reference_of s ≡ self.entry.ghost_name) }
        ensures opened { IfOk result (ListAfterHead len self.old) }
    {
        if self.is_deepest() {
            return Err(Error::DepthLimitExceeded);
        }
        let inner = inner_room(self.room, false);
        Ok(SeqAccess {
            de: self,
            left: len,
            count: len,
            inner,
            bytes: false,
            sound: true,
        })
    }

    // Reads the numbers of a list whose head was consumed.
    fn byte_list(&mut self, len: u32) -> Result<Vec<u8>, Error>
        requires marked { is_failed self.old ≡ true }
        requires clean { kept_of self.old ≡ Nothing }
        ensures { ReadsByteList R.Source len self.old self.new result }
    {
        let mut items = Vec::new(self.alloc);
        let mut seq = self.open_list(len)?;
        while let Some(item) = seq.next_number()? {
            items.push(item)?;
        }
        seq.end()?;
        Ok(items)
    }

    /// Reads an extension. It is no level of nesting.
    ///
    /// # Errors
    /// `TypeMismatch` with the marker of a message of another kind.
    #[inline(always)]
    pub fn deserialize_ext<'de>(&mut self) -> Result<Ext, Error>
    where
        R: ReadSlice<'de>,
        ensures law { Lawful R.Source IsExt self.old self.new result }
        ensures exact { RefusesLeaf R.Source IsExtHead not_ext never_refused self.old self.new result }
        ensures taken { RefusalLeaves R.Source IsExtHead self.old self.new result }
    {
        match self.take(ExtHead) {
            Some((len, tag)) => self.ext_payload(len, tag),
            None => self.slow_ext(),
        }
    }

    // Copies the payload of an extension, `len` bytes.
    #[inline(always)]
    fn ext_payload<'de>(&mut self, len: u32, tag: i8) -> Result<Ext, Error>
    where
        R: ReadSlice<'de>,
        ensures { ReadsRest R.Source an_ext (Head.Ext len tag) self.old self.new result }
    {
        let read = next_ext(self.alloc, &mut self.reader, len, tag);
        self.failed = read.is_err();
        read
    }

    // The slow path of `deserialize_ext`.
    #[inline(never)]
    fn slow_ext<'de>(&mut self) -> Result<Ext, Error>
    where
        R: ReadSlice<'de>,
        ensures { ReadsMessage R.Source an_ext self.old self.new result }
    {
        match self.head() {
            Ok((marker, head)) => match head.as_ext() {
                Some((len, tag)) => self.ext_payload(len, tag),
                None => Err(Error::TypeMismatch(marker)),
            },
            Err(e) => Err(e),
        }
    }

    /// Reads a name, and returns its place among the names: a text or bytes equal to one of them, or a number that is
    /// the place. `None` is any other text, bytes, or number from 0 on. Of equal names it is the first.
    ///
    /// # Errors
    /// `Syntax("invalid type")` for another kind, and for a negative number.
    #[inline(always)]
    pub fn deserialize_identifier<'de>(&mut self, names: &[&str]) -> Result<Option<usize>, Error>
    where
        R: ReadSlice<'de>,
        ensures law { Lawful R.Source (IsName (bytes_of names.now)) self.old self.new result }
        ensures exact { RefusesLeaf R.Source IsNameHead not_raw never_refused self.old self.new result }
        ensures taken { RefusalLeaves R.Source IsRawHead self.old self.new result }
        ensures memory { R.lends ≡ true → IfErr result (λ e. e ≢ Error.OutOfMemory) }
    {
        match self.take(TextHead) {
            Some(len) => self.identifier_payload(len, names),
            None => self.slow_identifier(names),
        }
    }

    // Reads the payload of a text or of bytes, `len` bytes, as the name that it is. The bytes are compared where they are buffered.
    #[inline(always)]
    fn identifier_payload<'de>(&mut self, len: u32, names: &[&str]) -> Result<Option<usize>, Error>
    where
        R: ReadSlice<'de>,
        ensures { (is_text : Bool) → ReadsRest R.Source (a_name (bytes_of names.now) R.lends) (raw_head is_text len) self.old self.new result }
    {
        match next_place(&mut self.reader, names, len) {
            Ok(place) => {
                self.failed = false;
                Ok(place)
            }
            Err(e) => Err(e),
        }
    }

    // The slow path of `deserialize_identifier`.
    #[inline(never)]
    fn slow_identifier<'de>(&mut self, names: &[&str]) -> Result<Option<usize>, Error>
    where
        R: ReadSlice<'de>,
        ensures { ReadsMessage R.Source (a_name (bytes_of names.now) R.lends) self.old self.new result }
    {
        let head = match self.head() {
            Ok((_, head)) => head,
            Err(e) => return Err(e),
        };
        match head.as_raw() {
            Some((_, len)) => return self.identifier_payload(len, names),
            None => {}
        }
        match head.as_whole() {
            Some(z) => match place_below(names.len(), z) {
                Some(place) => {
                    self.failed = false;
                    Ok(place)
                }
                None => Err(Error::Syntax(Text::InvalidType)),
            },
            None => Err(Error::Syntax(Text::InvalidType)),
        }
    }
}

impl<'x, R: Source, C: SerializerConfig> SeqAccess<'x, R, C> {
    // Reads the next item of a list as `deserialize_u8` does, if there is one.
    #[inline(always)]
    fn next_number(&mut self) -> Result<Option<u8>, Error>
        requires list { in_bytes self.old ≡ false }
        ensures { ReadsNumber R.Source self.old self.new result }
    {
        if self.left == 0 {
            return Ok(None);
        }
        let outer = self.de.room;
        self.de.room = self.inner;
        self.de.failed = false;
        let number = self.de.deserialize_u8();
        self.de.room = outer;
        self.de.failed = true;
        match number {
            Ok(n) => {
                self.left -= 1;
                Ok(Some(n))
            }
            Err(e) => {
                self.de.levels = levels_outside(self.de.levels, outer, self.inner);
                Err(e)
            }
        }
    }
}

impl<'de, R: ReadSlice<'de>> Deserialize<'de, R> for char {
    ghost reads = { λ human lends. IsChar };

    ghost absent = { None };

    ghost refuses = { λ s. RefusesContent s.strict IsTextHead not_raw not_char };

    ghost takes_memory = { λ lends. if lends then false else true };

    #[inline(always)]
    fn deserialize<C: SerializerConfig>(de: &mut Deserializer<R, C>) -> Result<char, Error> {
        de.deserialize_char()
    }

    fn missing() -> Option<char> {
        None
    }
}

impl<'de, R: ReadSlice<'de>> Deserialize<'de, R> for String {
    ghost reads = { λ human lends m s. IsRaw m (string_bytes s) };

    ghost absent = { None };

    ghost refuses = { λ s. RefusesContent s.strict IsRawHead not_raw not_string };

    #[inline(always)]
    fn deserialize<C: SerializerConfig>(de: &mut Deserializer<R, C>) -> Result<String, Error> {
        de.deserialize_string()
    }

    fn missing() -> Option<String> {
        None
    }
}

impl<'de, R: ReadSlice<'de>> Deserialize<'de, R> for &'de str {
    ghost reads = { λ human lends m s. (lends ≡ true) × IsString m s.now };

    ghost absent = { None };

    ghost refuses = { λ s. RefusesContent s.strict IsRawHead not_raw (not_str s.lends) };

    ghost takes_memory = { λ lends. if lends then false else true };

    #[inline(always)]
    fn deserialize<C: SerializerConfig>(de: &mut Deserializer<R, C>) -> Result<&'de str, Error> {
        de.deserialize_str()
    }

    fn missing() -> Option<&'de str> {
        None
    }
}

impl<'de, R: ReadSlice<'de>> Deserialize<'de, R> for &'de [u8] {
    ghost reads = { λ human lends m s. (lends ≡ true) × IsRaw m s.now };

    ghost absent = { None };

    ghost refuses = { λ s. RefusesContent s.strict IsRawHead not_raw (not_bytes s.lends) };

    ghost takes_memory = { λ lends. if lends then false else true };

    #[inline(always)]
    fn deserialize<C: SerializerConfig>(de: &mut Deserializer<R, C>) -> Result<&'de [u8], Error> {
        de.deserialize_bytes()
    }

    fn missing() -> Option<&'de [u8]> {
        None
    }
}

impl<'de, R: ReadSlice<'de>> Deserialize<'de, R> for Bytes<'de> {
    ghost use Rattle.rmp_wire.specs.Types.{bytes_of};

    ghost reads = { λ human lends m s. (lends ≡ true) × IsRaw m (bytes_of s) };

    ghost absent = { None };

    ghost refuses = { λ s. RefusesContent s.strict IsRawHead not_raw (not_bytes s.lends) };

    ghost takes_memory = { λ lends. if lends then false else true };

    #[inline(always)]
    fn deserialize<C: SerializerConfig>(de: &mut Deserializer<R, C>) -> Result<Bytes<'de>, Error> {
        match de.deserialize_bytes() {
            Ok(bytes) => Ok(Bytes::new(bytes)),
            Err(e) => Err(e),
        }
    }

    fn missing() -> Option<Bytes<'de>> {
        None
    }
}

impl<'de, R: ReadSlice<'de>> Deserialize<'de, R> for Ext {
    ghost reads = { λ human lends. IsExt };

    ghost absent = { None };

    ghost refuses = { λ s. RefusesContent s.strict IsExtHead not_ext never_refused };

    #[inline(always)]
    fn deserialize<C: SerializerConfig>(de: &mut Deserializer<R, C>) -> Result<Ext, Error> {
        de.deserialize_ext()
    }

    fn missing() -> Option<Ext> {
        None
    }
}

impl<'de, R: ReadSlice<'de>> Deserialize<'de, R> for ByteBuf {
    ghost reads = { λ human lends m b. IsBuffer m (buffer_bytes b) };

    ghost absent = { None };

    ghost refuses = { λ s before after known e. RefusesContent s.strict IsBufferHead not_raw not_buffer before after known e
        × RefusesListIn s.strict s.room before after known e };

    #[inline(always)]
    fn deserialize<C: SerializerConfig>(de: &mut Deserializer<R, C>) -> Result<ByteBuf, Error> {
        match de.deserialize_byte_buf() {
            Ok(bytes) => Ok(ByteBuf::new(bytes)),
            Err(e) => Err(e),
        }
    }

    fn missing() -> Option<ByteBuf> {
        None
    }
}
