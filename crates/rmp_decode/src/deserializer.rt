//! The reader of messages: its source, its settings, its state, and the next message.
ghost use Rattle.std.specs.Prelude.{◌≡◌, false, ◌≢◌, IfErr};
ghost use Rattle.rmp_decode.specs.State.{reader_of, alloc_of, config_of, is_failed, kept_of, limit_at, limited, failed_of, strict_of, faults_of, refused_levels};
ghost use Rattle.rmp_decode.specs.State.{left, IsNew, IsSameBut};
ghost use Rattle.rmp_decode.specs.declared.deserializer.Kept.TheVariants.{Nothing};
ghost use Rattle.rmp_decode.specs.Messages.{messages_lender, messages_reference, is_done};
ghost use Rattle.rmp_decode.specs.Next.{FindsNext, IsThere, NextRead, RefusesNext};
ghost use Rattle.rmp_decode.specs.Refusing.{RefusesAs};
ghost use Rattle.std.specs.Borrow.{sem, follows};
ghost use Rattle.std.specs.Io.Cursor.{cursor_position};
ghost use Rattle.rmp_wire.specs.contracts.slice.read_reader.ReadReader.{the_row as reader_row};
ghost use Rattle.rmp_decode.specs.contracts.deserializer.Deserializer.{the_row};
ghost use Rattle.rmp_decode.specs.Readers.{source_of, reading_with};

pub(crate) mod heads;
mod leaf;
pub(crate) mod messages;
mod numbers;
mod options;
pub(crate) mod peek;
pub(crate) mod refusal;
pub(crate) mod skip;

use crate::de::Deserialize;
use crate::deserializer::messages::Messages;
use crate::error::Error;
use crate::text::Text;
use rmp_wire::config::{BinaryConfig, DefaultConfig, HumanReadableConfig, SerializerConfig};
use rmp_wire::{IoFault, ReadReader, ReadRefReader, ReadSlice, Source};
use std::alloc::Global;
use std::io::Cursor;
use std::marker::PhantomData;

/// The default limit on nesting: a message is read if its depth is below it.
const DEFAULT_DEPTH: u32 = 1024;

/// The greatest limit that may be set.
const MAX_DEPTH: usize = 65535;

/// What was consumed from the source but belongs to the next message.
#[derive(Clone, Copy, Debug)]
pub enum Kept {
    /// Nothing.
    Nothing,
    /// The first byte of the next message.
    First(u8),
    /// A number that is the next message: an item of bytes that are read as a list.
    Number(u8),
}

/// Reads values from a source, one message after another.
///
/// After an error every further read returns `Uncategorized("failed before")` and consumes nothing.
#[derive(Drop)]
pub struct Deserializer<R, C = DefaultConfig> {
    pub(crate) reader: R,
    pub(crate) config: C,
    pub(crate) alloc: Global,
    pub(crate) kept: Kept,
    pub(crate) room: u32,
    pub(crate) limit: u32,
    pub(crate) failed: bool,
    pub(crate) strict: bool,
    pub(crate) levels: u32,
}

impl<R> Deserializer<R, DefaultConfig> {
    #[inline(always)]
    fn over(alloc: Global, reader: R) -> Self
        ensures reader { reader_of result ≡ reader }
        ensures new { IsNew alloc result }
    {
        Deserializer {
            reader,
            config: DefaultConfig,
            alloc,
            kept: Kept::Nothing,
            room: DEFAULT_DEPTH,
            limit: DEFAULT_DEPTH,
            failed: false,
            strict: false,
            levels: 0,
        }
    }
}

impl<'de> Deserializer<ReadRefReader<'de>, DefaultConfig> {
    ghost use Rattle.rmp_wire.specs.RefReader.{rest_of, whole_of};

    /// Makes a reader of a slice, from which texts and bytes are borrowed. Memory comes from `alloc`.
    ///
    /// # Examples
    /// ```
    /// use rmp_serde::Deserializer;
    /// use rmp_serde::decode::Deserialize;
    ///
    /// let mut de = Deserializer::from_read_ref(alloc, &[0x2a, 0xa2, 0x69, 0x74]);
    /// assert_eq!(rt; u8::deserialize(&mut de)?, 42);
    /// assert_eq!(rt; <&str>::deserialize(&mut de)?, "it");
    /// assert!(rt; de.remaining_slice().is_empty());
    /// ```
    pub fn from_read_ref(alloc: Global, input: &'de [u8]) -> Self
        ensures rest { rest_of (reader_of result) ≡ input.now }
        ensures whole { whole_of (reader_of result) ≡ input.now }
        ensures new { IsNew alloc result }
    {
        Deserializer::over(alloc, ReadRefReader::new(input))
    }
}

impl<'de, C> Deserializer<ReadRefReader<'de>, C> {
    ghost use Rattle.rmp_wire.specs.RefReader.{rest_of, whole_of};

    /// Returns the whole slice, with what was already read.
    pub fn get_ref(&self) -> &'de [u8]
        ensures { result.now ≡ whole_of (reader_of self.now) }
    {
        self.reader.whole()
    }

    /// Returns the remaining bytes of the slice.
    pub fn remaining_slice(&self) -> &'de [u8]
        ensures { result.now ≡ rest_of (reader_of self.now) }
    {
        self.reader.remaining_slice()
    }
}

impl<R> Deserializer<ReadReader<R>, DefaultConfig> {
    /// Makes a reader of a source. Memory, also for copies, comes from `alloc`.
    pub fn new(alloc: Global, rd: R) -> Self
        ensures source { source_of result ≡ rd }
        ensures new { IsNew alloc result }
    {
        Deserializer::over(alloc, ReadReader::new(alloc, rd))
    }
}

impl<R, C: SerializerConfig> Deserializer<ReadReader<R>, C> {
    /// Returns a reference to the source.
    pub fn get_ref(&self) -> &R
        ensures { result.now ≡ source_of self.now }
    {
        self.reader.get_ref()
    }

    /// Returns a mutable reference to the source. A byte that was kept back is still read first, and then what the
    /// source has.
    pub fn get_mut(&mut self) -> &mut R
        ensures* writes_back { sem 𝓛 (follows (the_row (reader_row R.row) C.row) R.row self.entry.ghost_name result.ghost_name (reading_with self.old)) }
        ensures value { result.now ≡ source_of self.old }
    {
        self.reader.get_mut()
    }

    /// Returns the source. A byte that was kept back is lost: it counts as read.
    pub fn into_inner(self) -> R
        ensures { result ≡ source_of self }
    {
        self.reader.into_inner()
    }
}

impl<T, C> Deserializer<ReadReader<Cursor<T>>, C> {
    /// Returns the position of the cursor. A byte that was kept back counts as read.
    pub fn position(&self) -> u64
        ensures { result ≡ cursor_position (source_of self.now) }
    {
        self.reader.get_ref().position()
    }
}

impl<R, C> Deserializer<R, C> {
    /// Returns a reference to what it reads from.
    pub fn reader(&self) -> &R
        ensures { result.now ≡ reader_of self.now }
    {
        &self.reader
    }

    /// Returns the allocator that its memory comes from.
    pub fn alloc(&self) -> Global
        ensures { result ≡ alloc_of self.now }
    {
        self.alloc
    }

    /// Sets whether only canonical heads are accepted: those that `Serializer` writes. By default, heads of any width
    /// are.
    pub fn set_strict(&mut self, strict: bool)
        ensures { self.new ≡ strict_of self.old strict }
    {
        self.strict = strict;
    }

    /// Sets the limit on nesting: a message is read if its depth is below the limit. The default is 1024, the maximum
    /// is 65535, and 0 acts as 1.
    ///
    /// Inside a list or a map this is the limit of the whole message, from which the open levels are subtracted. It
    /// applies until the end of the part that is being read; later parts have the earlier limit.
    pub fn set_max_depth(&mut self, depth: usize)
        ensures { self.new ≡ limited self.old depth }
    {
        let open = self.limit.saturating_sub(self.room);
        let limit = limit_at(depth);
        self.limit = limit.max(open);
        self.room = limit.saturating_sub(open);
    }

    /// Marks the reader as failed, and returns the error. A type calls this to refuse what it has read.
    pub fn refuse(&mut self, error: Error) -> Error
        ensures same { result ≡ error }
        ensures failed { self.new ≡ failed_of self.old }
    {
        self.failed = true;
        error
    }

    /// Returns how many levels inside of the message the part was that a read refused: 0 if it refused the message itself,
    /// and 1 for an element of its list or a key or a value of its map. It is 0 as long as no read has failed.
    ///
    /// So the refused part is that many steps down from the message, on the way to the last byte that was consumed. `explain`
    /// finds those steps.
    pub fn refused_levels(&self) -> u32
        ensures { result ≡ refused_levels self.now }
    {
        self.levels
    }

    /// Returns an iterator over the messages up to the end of the source, or up to and with the first error.
    ///
    /// # Examples
    /// ```
    /// use rmp_serde::Deserializer;
    ///
    /// let mut de = Deserializer::from_read_ref(alloc, &[0x2a, 0xcd, 0x01, 0x00]);
    /// let mut sum = 0;
    /// for number in de.messages::<u64>() {
    ///     sum += number?;
    /// }
    /// assert_eq!(rt; sum, 298);
    /// ```
    pub fn messages<'de, T>(&mut self) -> Messages<'_, 'de, T, R, C>
        ensures same_reference { messages_reference result ≡ self.entry.ghost_name }
        ensures same { messages_lender result ≡ self.old }
        ensures ready { is_done result ≡ false }
    {
        Messages {
            de: self,
            done: false,
            of: PhantomData,
        }
    }
}

impl<R, C: SerializerConfig> Deserializer<R, C> {
    ghost use Rattle.rmp_wire.specs.Settings.{readable_inner, binary_inner};

    /// Returns the same reader, set to read human-readable forms of types that have one.
    pub fn with_human_readable(self) -> Deserializer<R, HumanReadableConfig<C>>
        ensures config { readable_inner (config_of result) ≡ config_of self }
        ensures same { IsSameBut self result }
    {
        let config = HumanReadableConfig::new(self.config);
        self.with_config(config)
    }

    /// Returns the same reader, set to read compact forms of types that have one.
    pub fn with_binary(self) -> Deserializer<R, BinaryConfig<C>>
        ensures config { binary_inner (config_of result) ≡ config_of self }
        ensures same { IsSameBut self result }
    {
        let config = BinaryConfig::new(self.config);
        self.with_config(config)
    }

    #[inline(always)]
    fn with_config<D>(self, config: D) -> Deserializer<R, D>
        ensures config { config_of result ≡ config }
        ensures same { IsSameBut self result }
    {
        Deserializer {
            reader: self.reader,
            config,
            alloc: self.alloc,
            kept: self.kept,
            room: self.room,
            limit: self.limit,
            failed: self.failed,
            strict: self.strict,
            levels: self.levels,
        }
    }
}

impl<R: Source, C: SerializerConfig> Deserializer<R, C> {
    /// Returns whether types with a human-readable and a compact form are read from the human-readable one.
    pub fn is_human_readable(&self) -> bool
        ensures { result ≡ C.human }
    {
        self.config.is_human_readable()
    }

    // Whether a message's first byte is there. If it isn't buffered, it is kept back.
    #[inline(always)]
    fn finds_next(&mut self) -> Result<bool, Error>
        ensures { FindsNext R.Source self.old self.new result }
    {
        if self.failed {
            return Err(Error::Uncategorized(Text::FailedBefore));
        }
        match self.kept {
            Kept::Nothing => {
                if !self.reader.front().is_empty() {
                    return Ok(true);
                }
                self.pull_first()
            }
            Kept::First(_) => Ok(true),
            Kept::Number(_) => Ok(true),
        }
    }

    // Pulls a message's first byte, and keeps it back. Returns `false` at the end. Out of line.
    #[inline(never)]
    fn pull_first(&mut self) -> Result<bool, Error>
        requires ready { is_failed self.old ≡ false }
        requires clean { kept_of self.old ≡ Nothing }
        ensures { FindsNext R.Source self.old self.new result }
    {
        let mut first = [0];
        match self.reader.pull(&mut first) {
            Ok(0) => Ok(false),
            Ok(_) => {
                self.kept = Kept::First(first[0]);
                Ok(true)
            }
            Err(e) => {
                self.failed = true;
                Err(Error::InvalidMarkerRead(IoFault::from(e)))
            }
        }
    }

    /// Reads the next message, or returns `None` if the source ends before its first byte.
    ///
    /// An end inside a message is an error. `None` consumes nothing and leaves the reader ready: if more bytes arrive,
    /// a later call reads them. For a loop over all messages take `messages`.
    ///
    /// # Errors
    /// Those of the type, and `InvalidMarkerRead` with the source's fault if it fails before the first byte.
    ///
    /// # Examples
    /// ```
    /// use rmp_serde::Deserializer;
    ///
    /// let mut de = Deserializer::from_read_ref(alloc, &[0x2a, 0xcd, 0x01, 0x00]);
    /// let first = de.next::<u64>()?;
    /// assert_eq!(rt; first, Some(42));
    /// for number in de.messages::<u64>() {
    ///     assert_eq!(rt; number?, 256);
    /// }
    /// assert_eq!(rt; de.next::<u64>()?, None);
    /// ```
    #[inline(always)]
    pub fn next<'de, T: Deserialize<'de, R>>(&mut self) -> Result<Option<T>, Error>
    where
        R: ReadSlice<'de>,
        // `None` is the end, and nothing was consumed. A value is the reading of the next message, and an error its
        // refusal.
        ensures law { NextRead R.Source (T.reads C.human R.lends) self.old self.new result }
        // An error isn't the end: the message's first byte is there, unless the source had a fault.
        ensures there { is_failed self.old ≡ false → IfErr result (λ e. faults_of R.Source self.new ≡ faults_of R.Source self.old → IsThere (left R.Source self.old)) }
        // Where the type says which error names what is wrong, it is that one.
        ensures refused { RefusesAs R.Source C.human R.lends (RefusesNext T.refuses) self.old self.new result }
        ensures memory { T.takes_memory R.lends ≡ false → IfErr result (λ e. e ≢ Error.OutOfMemory) }
    {
        match self.finds_next() {
            Ok(true) => match T::deserialize(self) {
                Ok(value) => Ok(Some(value)),
                Err(e) => Err(e),
            },
            Ok(false) => Ok(None),
            Err(e) => Err(e),
        }
    }
}

// The limit that a depth sets.
fn limit_at(depth: usize) -> u32
    ensures { result ≡ limit_at depth }
{
    depth.clamp(1, MAX_DEPTH) as u32
}
