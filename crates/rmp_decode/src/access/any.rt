//! Reads messages of any kind, by their parts or by their heads.
ghost use Rattle.std.specs.Prelude.{◌≡◌, ◌≢◌, false, true, IfOk, IfErr, OnOk, OnErr};
ghost use Rattle.std.specs.Borrow.{sem, RestsIfErr};
ghost use Rattle.std.specs.String.{string_bytes};
ghost use Rattle.rmp_decode.specs.contracts.deserializer.Deserializer.{the_row};
ghost use Rattle.rmp_decode.specs.Anys.{any_name, OpensAny, FailsToOpenAny, leaf_value, leaf_lender, raw_len, raw_tag, raw_lender, TakesContent, FailsContent};
ghost use Rattle.rmp_decode.specs.Anys.{FailsToLend, FailsText};
ghost use Rattle.rmp_decode.specs.Law.{ReadsHead};
ghost use Rattle.rmp_decode.specs.State.{failed_of, room_of, is_failed, kept_of};
ghost use Rattle.rmp_decode.specs.BufferedHeads.{ConsumesHead};
ghost use Rattle.rmp_decode.specs.Steps.{AppendsContent, AppendsText};
ghost use Rattle.rmp_decode.specs.declared.deserializer.Kept.TheVariants.{Nothing};

use crate::access::map::MapAccess;
use crate::access::parts::inner_room;
use crate::access::seq::SeqAccess;
use crate::content::ReadContent;
use crate::content::pieces::lent;
use crate::deserializer::Deserializer;
use crate::deserializer::heads::Levels;
use crate::deserializer::peek::OneByteHead;
use crate::error::Error;
use crate::text::Text;
use rmp_wire::config::SerializerConfig;
use rmp_wire::{Head, ReadSlice, Source};
use std::str;

/// A message without parts, which was read whole. The reader is ready again.
#[derive(Drop)]
pub struct Leaf<'x, R, C, T> {
    de: &'x mut Deserializer<R, C>,
    value: T,
}

impl<'x, R, C, T: Copy> Leaf<'x, R, C, T> {
    /// Returns what it holds.
    pub fn value(self) -> T
        ensures value { result ≡ leaf_value self.entry }
        ensures reader { self.exit.0.now ≡ leaf_lender self.entry }
    {
        self.value
    }

    /// Marks the reader as failed, and returns the error. A type calls this to refuse such a message.
    pub fn refuse(self, error: Error) -> Error
        ensures same { result ≡ error }
        ensures reader { self.exit.0.now ≡ failed_of (leaf_lender self.entry) }
    {
        self.de.failed = true;
        error
    }
}

/// The payload of a text, of bytes or of an extension, which hasn't been read.
///
/// The reader counts as failed until the payload is read.
#[derive(Drop)]
pub struct RawAccess<'x, R, C> {
    de: &'x mut Deserializer<R, C>,
    len: u32,
    tag: i8,
}

impl<'x, R: Source, C: SerializerConfig> RawAccess<'x, R, C> {
    /// Returns the number of bytes.
    pub fn size(&self) -> u32
        ensures { result ≡ raw_len self.now }
    {
        self.len
    }

    /// Returns the type of an extension.
    pub fn tag(&self) -> i8
        ensures { result ≡ raw_tag self.now }
    {
        self.tag
    }

    /// Reads the bytes into a vector.
    ///
    /// # Errors
    /// `InvalidDataRead` if the input ends too soon or the source fails, and `OutOfMemory`.
    #[inline(never)]
    pub fn take<P: ReadContent<R>>(self) -> Result<Vec<u8>, Error>
        ensures ok { IfOk result (λ v. TakesContent R.Source (raw_len self.entry) (raw_lender self.entry) self.exit.0.now v.items) }
        ensures err { IfErr result (FailsContent R.Source (raw_len self.entry) (raw_lender self.entry) self.exit.0.now) }
    {
        let RawAccess { de, len, tag: _ } = self;
        match P::take(de.alloc, &mut de.reader, len as usize) {
            Ok(bytes) => {
                de.failed = false;
                Ok(bytes)
            }
            Err(e) => Err(e),
        }
    }
}

impl<'x, R: Source, C: SerializerConfig> RawAccess<'x, R, C> {
    /// Reads the bytes as a text.
    ///
    /// # Errors
    /// `Utf8Error` if they aren't UTF-8, and otherwise those of `take`.
    #[inline(never)]
    pub fn text<P: ReadContent<R>>(self) -> Result<String, Error>
        ensures ok { IfOk result (λ t. TakesContent R.Source (raw_len self.entry) (raw_lender self.entry) self.exit.0.now (string_bytes t)) }
        ensures err { IfErr result (FailsText R.Source (raw_len self.entry) (raw_lender self.entry) self.exit.0.now) }
    {
        let RawAccess {
            de,
            len: size,
            tag: _,
        } = self;
        match P::take(de.alloc, &mut de.reader, size as usize) {
            Ok(bytes) => match String::from_utf8(bytes) {
                Ok(text) => {
                    de.failed = false;
                    Ok(text)
                }
                Err(e) => Err(Error::Utf8Error(e.utf8_error())),
            },
            Err(e) => Err(e),
        }
    }

    /// Borrows the bytes for the lifetime of the input. Allocates nothing.
    ///
    /// # Errors
    /// `InvalidDataRead` if the input ends too soon or the source fails, and `Syntax("invalid type")` if the source
    /// doesn't lend its bytes.
    #[inline(never)]
    pub fn lend<'de>(self) -> Result<&'de [u8], Error>
    where
        R: ReadSlice<'de>,
        ensures lends { IfOk result (λ _. R.lends ≡ true) }
        ensures ok { IfOk result (λ s. TakesContent R.Source (raw_len self.entry) (raw_lender self.entry) self.exit.0.now s.now) }
        ensures err { R.lends ≡ true → IfErr result (FailsContent R.Source (raw_len self.entry) (raw_lender self.entry) self.exit.0.now) }
        ensures memory { R.lends ≡ true → IfErr result (λ e. e ≢ Error.OutOfMemory) }
        ensures copies { R.lends ≡ false → IfErr result (FailsToLend R.Source (raw_len self.entry) (raw_lender self.entry) self.exit.0.now) }
    {
        let RawAccess { de, len, tag: _ } = self;
        match lent(&mut de.reader, len as usize) {
            Ok(Some(bytes)) => {
                de.failed = false;
                Ok(bytes)
            }
            Ok(None) => Err(Error::Syntax(Text::InvalidType)),
            Err(e) => Err(e),
        }
    }
}

/// A message of any kind: what was read of one without parts, or the access to what it contains.
#[derive(Drop)]
pub enum Any<'x, R, C> {
    /// Nil.
    Nil(Leaf<'x, R, C, ()>),
    /// `true` or `false`.
    Truth(Leaf<'x, R, C, bool>),
    /// A whole number.
    Whole(Leaf<'x, R, C, i128>),
    /// The bits of a 32-bit float.
    F32Bits(Leaf<'x, R, C, u32>),
    /// The bits of a 64-bit float.
    F64Bits(Leaf<'x, R, C, u64>),
    /// The bytes of a text, which needn't be UTF-8.
    Text(RawAccess<'x, R, C>),
    /// Bytes.
    Bytes(RawAccess<'x, R, C>),
    /// A list, whose elements haven't been read.
    Seq(SeqAccess<'x, R, C>),
    /// A map, whose pairs haven't been read.
    Map(MapAccess<'x, R, C>),
    /// An extension, whose bytes haven't been read.
    Ext(RawAccess<'x, R, C>),
}

impl<R: Source, C: SerializerConfig> Deserializer<R, C> {
    /// Reads a message of any kind: a number, a truth, nil or the bits of a float whole, and the head of any other.
    ///
    /// # Errors
    /// `DepthLimitExceeded` for a list or map that nests too deep.
    #[inline(never)]
    pub fn deserialize_any(&mut self) -> Result<Any<'_, R, C>, Error>
        ensures* refused { sem 𝓛 (RestsIfErr (the_row R.row C.row) self.entry any_name result (λ last. IfErr result (FailsToOpenAny R.Source self.old last))) }
        ensures same_reference { IfOk result (λ a. any_name a ≡ self.entry.ghost_name) }
        ensures opened { IfOk result (OpensAny R.Source self.old) }
    {
        let inner = inner_room(self.room, false);
        match self.opening(Levels::Parts) {
            Ok((_, head)) => match head {
                Head::Nil => {
                    self.failed = false;
                    Ok(Any::Nil(Leaf {
                        de: self,
                        value: (),
                    }))
                }
                Head::Truth(value) => {
                    self.failed = false;
                    Ok(Any::Truth(Leaf { de: self, value }))
                }
                Head::Whole(value) => {
                    self.failed = false;
                    Ok(Any::Whole(Leaf { de: self, value }))
                }
                Head::F32Bits(value) => {
                    self.failed = false;
                    Ok(Any::F32Bits(Leaf { de: self, value }))
                }
                Head::F64Bits(value) => {
                    self.failed = false;
                    Ok(Any::F64Bits(Leaf { de: self, value }))
                }
                Head::Text(len) => Ok(Any::Text(RawAccess {
                    de: self,
                    len,
                    tag: 0,
                })),
                Head::Bin(len) => Ok(Any::Bytes(RawAccess {
                    de: self,
                    len,
                    tag: 0,
                })),
                Head::Ext(len, tag) => Ok(Any::Ext(RawAccess { de: self, len, tag })),
                Head::Array(left) => Ok(Any::Seq(SeqAccess {
                    de: self,
                    left,
                    count: left,
                    inner,
                    bytes: false,
                    sound: true,
                })),
                Head::Map(left) => Ok(Any::Map(MapAccess {
                    de: self,
                    left,
                    count: left,
                    inner,
                    owes: false,
                    sound: true,
                })),
            },
            Err(e) => Err(e),
        }
    }

    /// Returns the limit on the depth of the next message, which has to be below it.
    #[inline(always)]
    pub fn room(&self) -> u32
        ensures { result ≡ room_of self.now }
    {
        self.room.max(1)
    }

    /// Reads only the head of a message. What follows remains: the payload of a text, of bytes or of an extension,
    /// which `append_content` reads, or the messages of a list or a map, one after another.
    ///
    /// It counts no level of nesting: a caller that reads by heads has to compare the levels with `room`.
    ///
    /// # Errors
    /// `InvalidMarkerRead` if the input ends before the head, `InvalidDataRead` if it ends inside the head,
    /// `TypeMismatch` at the byte c1, and in a strict read `NotCanonical` at a head that isn't canonical.
    #[inline(always)]
    pub fn deserialize_head(&mut self) -> Result<Head, Error>
        ensures ok { IfOk result (λ h. ConsumesHead R.Source h self.old (failed_of self.new)) }
        ensures ready { OnOk result (is_failed self.new ≡ false) }
        ensures err { IfErr result (λ e. ReadsHead R.Source self.old self.new (Err e)) }
    {
        match self.take(OneByteHead) {
            Some(head) => {
                self.failed = false;
                Ok(head)
            }
            None => match self.any_head() {
                Ok(head) => {
                    self.failed = false;
                    Ok(head)
                }
                Err(e) => Err(e),
            },
        }
    }

    /// Reads the payload of a head, `len` bytes, and appends it to a vector.
    ///
    /// # Errors
    /// `InvalidDataRead` if the input ends too soon or the source fails, and `OutOfMemory`. Then the vector is
    /// unchanged.
    #[inline(always)]
    pub fn append_content<P: ReadContent<R>>(
        &mut self,
        len: u32,
        bytes: &mut Vec<u8>,
    ) -> Result<(), Error>
        requires ready { is_failed self.old ≡ false }
        requires clean { kept_of self.old ≡ Nothing }
        ensures ok { OnOk result (AppendsContent R.Source len self.old self.new bytes.old.items bytes.new.items) }
        ensures err { IfErr result (FailsContent R.Source len (failed_of self.old) self.new) }
        ensures kept { OnErr result (bytes.new.items ≡ bytes.old.items) }
    {
        match P::append(&mut self.reader, len as usize, bytes) {
            Ok(()) => Ok(()),
            Err(e) => {
                self.failed = true;
                Err(e)
            }
        }
    }

    /// Reads the payload of a text, which has to be UTF-8, and appends it to a vector.
    ///
    /// # Errors
    /// `Utf8Error` if it isn't UTF-8, and otherwise those of `append_content`. Then the vector is unchanged.
    #[inline(always)]
    pub fn append_text<P: ReadContent<R>>(
        &mut self,
        len: u32,
        bytes: &mut Vec<u8>,
    ) -> Result<(), Error>
        requires ready { is_failed self.old ≡ false }
        requires clean { kept_of self.old ≡ Nothing }
        ensures ok { OnOk result (AppendsText R.Source len self.old self.new bytes.old.items bytes.new.items) }
        ensures err { IfErr result (FailsText R.Source len (failed_of self.old) self.new) }
        ensures kept { OnErr result (bytes.new.items ≡ bytes.old.items) }
    {
        let at = bytes.len();
        match P::append(&mut self.reader, len as usize, bytes) {
            Ok(()) => match str::from_utf8(&bytes[at..]) {
                Ok(_) => Ok(()),
                Err(e) => {
                    bytes.truncate(at);
                    self.failed = true;
                    Err(Error::Utf8Error(e))
                }
            },
            Err(e) => {
                self.failed = true;
                Err(e)
            }
        }
    }
}
