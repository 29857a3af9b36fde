//! Types that can be read, and reads of whole values.
ghost use Rattle.std.specs.Prelude.{◌≡◌, ◌≢◌, Some, true, false, Bool, Option, IfOk, IfErr, IfSome};
ghost use Rattle.rmp_wire.specs.Canonical.{IsCanonical};
ghost use Rattle.rmp_wire.specs.Spelling.{Spells};
ghost use Rattle.rmp_decode.specs.Law.{Begins, Readable, Lawful};
ghost use Rattle.rmp_decode.specs.Refusing.{slice_setting};
ghost use Rattle.rmp_decode.specs.Readers.{source_setting, ReadFrom, RefusedBy, ReadsSource, TakenFrom, RefusedFrom};

mod arrays;
pub(crate) mod defaults;
mod elements;
mod lists;
mod maps;
mod pointers;
mod sets;
mod tuples;

use crate::deserializer::Deserializer;
use crate::error::Error;
use core::mem::replace_with;
use rmp_wire::config::SerializerConfig;
use rmp_wire::{ReadReader, ReadRefReader, ReadSlice, Source};
use std::alloc::Global;
use std::marker::PhantomData;

/// A type that can be read from MessagePack.
pub trait Deserialize<'de, R: ReadSlice<'de>>: Sized + Drop {
    ghost use Rattle.rmp_wire.specs.Msg.{Msg};
    ghost use Rattle.rmp_decode.specs.Refusing.{Setting, Refusals, RefusesAs, any_refusal};

    // Which trees are read as which values, by whether the format is for people to read and whether the source lends its
    // bytes.
    ghost reads: { Bool → Bool → Msg → Self → Type 0 };

    // Returns the value of a field that is missing, if there is one.
    ghost absent: { Option Self };

    // What is known of the error of a read of a ready reader, by what the read depends on, how many faults the source had before
    // and after, and what was left.
    ghost refuses: { Setting → Refusals } = { λ _. any_refusal };

    // Whether a read may return `OutOfMemory`, by whether the source lends its bytes.
    ghost takes_memory: { Bool → Bool } = { λ _. true };

    /// Reads one message.
    fn deserialize<C: SerializerConfig>(de: &mut Deserializer<R, C>) -> Result<Self, Error>
        ensures law { Lawful R.Source (reads C.human R.lends) de.old de.new result }
        ensures refused { RefusesAs R.Source C.human R.lends refuses de.old de.new result }
        ensures memory { takes_memory R.lends ≡ false → IfErr result (λ e. e ≢ Error.OutOfMemory) };

    /// Returns the value of a field that is missing, if there is one.
    fn missing() -> Option<Self>
        ensures { result ≡ absent };
}

/// Reads a value from the beginning of the input. What follows the value isn't looked at.
///
/// # Errors
/// Any error but `OutOfMemory` means that the input doesn't begin with the encoding of a message that the type reads.
///
/// # Examples
/// ```
/// use rmp_serde::from_slice;
///
/// // the 42 takes three bytes, and the text is borrowed from the input
/// let input = [0x92, 0xcd, 0x00, 0x2a, 0xa2, 0x69, 0x74];
/// let (number, text): (u8, &str) = from_slice(alloc, &input)?;
/// assert_eq!(rt; number, 42);
/// assert_eq!(rt; text, "it");
/// ```
pub fn from_slice<'de, T: Deserialize<'de, ReadRefReader<'de>>>(
    alloc: Global,
    input: &'de [u8],
) -> Result<T, Error>
    // The value is the reading of a tree that a prefix of the input encodes.
    ensures ok { IfOk result (λ v. Begins Spells (λ m. T.reads false true m v) 1024 input.now) }
    // An error other than `OutOfMemory` means that no prefix encodes a tree that the type reads.
    ensures err { IfErr result (λ e. e ≢ Error.OutOfMemory → Begins Spells (Readable (T.reads false true)) 1024 input.now → ⊥) }
    // Where the type says which error names what is wrong, it is that one.
    ensures refused { IfErr result (T.refuses (slice_setting false) 0 0 (Some input.now)) }
    ensures memory { T.takes_memory true ≡ false → IfErr result (λ e. e ≢ Error.OutOfMemory) }
{
    let mut de = Deserializer::from_read_ref(alloc, input);
    T::deserialize(&mut de)
}

/// Reads a value from the beginning of the input, and accepts canonical heads only: those that are written. What
/// follows the value isn't looked at.
///
/// # Errors
/// Any error but `OutOfMemory` means that the input doesn't begin with the canonical encoding of a message that the
/// type reads.
///
/// # Examples
/// ```
/// use rmp_serde::decode::Error;
/// use rmp_serde::from_slice_strict;
///
/// let number: u8 = from_slice_strict(alloc, &[0x2a])?;
/// assert_eq!(rt; number, 42);
/// let in_three_bytes: Result<u8, Error> = from_slice_strict(alloc, &[0xcd, 0x00, 0x2a]);
/// assert!(rt; matches!(in_three_bytes, Err(Error::NotCanonical)));
/// ```
pub fn from_slice_strict<'de, T: Deserialize<'de, ReadRefReader<'de>>>(
    alloc: Global,
    input: &'de [u8],
) -> Result<T, Error>
    ensures ok { IfOk result (λ v. Begins IsCanonical (λ m. T.reads false true m v) 1024 input.now) }
    ensures err { IfErr result (λ e. e ≢ Error.OutOfMemory → Begins IsCanonical (Readable (T.reads false true)) 1024 input.now → ⊥) }
    // Where the type says which error names what is wrong, it is that one.
    ensures refused { IfErr result (T.refuses (slice_setting true) 0 0 (Some input.now)) }
    ensures memory { T.takes_memory true ≡ false → IfErr result (λ e. e ≢ Error.OutOfMemory) }
{
    // The settings are the default ones under another type: so strict reads are compiled separately, and a list's loop is inlined into
    // both.
    let mut de = Deserializer::from_read_ref(alloc, input).with_binary();
    de.set_strict(true);
    T::deserialize(&mut de)
}

/// Reads a value from the beginning of the input, as `from_slice` does.
///
/// # Errors
/// As `from_slice`.
pub fn from_read_ref<'de, T: Deserialize<'de, ReadRefReader<'de>>>(
    alloc: Global,
    input: &'de [u8],
) -> Result<T, Error>
    ensures ok { IfOk result (λ v. Begins Spells (λ m. T.reads false true m v) 1024 input.now) }
    ensures err { IfErr result (λ e. e ≢ Error.OutOfMemory → Begins Spells (Readable (T.reads false true)) 1024 input.now → ⊥) }
    // Where the type says which error names what is wrong, it is that one.
    ensures refused { IfErr result (T.refuses (slice_setting false) 0 0 (Some input.now)) }
    ensures memory { T.takes_memory true ≡ false → IfErr result (λ e. e ≢ Error.OutOfMemory) }
{
    from_slice(alloc, input)
}

// A read from a source that is moved in and given back. The bound names no lifetime, since a function that passes a
// closure can have none that does.
trait ReadMoved<R: Source + Drop, V: Drop> {
    ghost use Rattle.std.specs.Prelude.{Bool};
    ghost use Rattle.rmp_wire.specs.Msg.{Msg};
    ghost use Rattle.rmp_decode.specs.Refusing.{Refusals};

    ghost reads: { Msg → V → Type 0 };

    ghost refuses: { Refusals };

    ghost takes_memory: { Bool };

    fn read(alloc: Global, source: R) -> (R, Result<V, Error>)
        ensures { ReadsSource R.Source takes_memory reads refuses source result.0 result.1 };
}

// A value that is read by its type.
struct ByType<'de> {
    of: PhantomData<&'de [u8]>,
}

impl<'de, R: Source + Drop, T: Deserialize<'de, ReadReader<R>>> ReadMoved<R, T> for ByType<'de> {
    ghost reads = { T.reads false false };

    ghost refuses = { T.refuses source_setting };

    ghost takes_memory = { T.takes_memory false };

    #[inline(always)]
    fn read(alloc: Global, source: R) -> (R, Result<T, Error>) {
        let mut de = Deserializer::new(alloc, source);
        let value = T::deserialize(&mut de);
        let source = de.into_inner();
        (source, value)
    }
}

#[inline(always)]
fn read_moved<R: Source + Drop, V: Drop, P: ReadMoved<R, V>>(
    alloc: Global,
    rd: &mut R,
) -> Result<V, Error>
    ensures { ReadsSource R.Source P.takes_memory P.reads P.refuses rd.old rd.new result }
{
    replace_with(
        rd,
        alloc,
        |source: R, alloc: Global|
            ensures { ReadsSource R.Source P.takes_memory P.reads P.refuses source result.0 result.1 }
        { P::read(alloc, source) },
    )
}

/// Reads a value from a source, and leaves it at the byte after the value's message, as `encode::write` writes one.
///
/// # Errors
/// Unless the source failed, any error but `OutOfMemory` means that no prefix of the remaining bytes encodes a message
/// that the type reads. The source is left where the read stopped.
///
/// # Examples
/// ```
/// use rmp_serde::decode::read;
///
/// let mut messages = [0x2a, 0xa2, 0x69, 0x74, 0xc0].as_slice();
/// let number: u8 = read(alloc, &mut messages)?;
/// let text: String = read(alloc, &mut messages)?;
/// assert_eq!(rt; number, 42);
/// assert_eq!(rt; text.as_str(), "it");
/// assert_eq!(rt; messages, [0xc0].as_slice());
/// ```
#[inline(always)]
pub fn read<'de, R: Source + Drop, T: Deserialize<'de, ReadReader<R>>>(
    alloc: Global,
    rd: &mut R,
) -> Result<T, Error>
    // The source's first bytes encode a tree that is read as the value, and the rest remains.
    ensures ok { IfOk result (ReadFrom R.Source (T.reads false false) rd.old rd.new) }
    // An error that is neither for memory nor for a fault means that no prefix encodes a tree that the type reads.
    ensures err { IfErr result (RefusedBy R.Source (T.reads false false) (T.refuses source_setting) rd.old rd.new) }
    ensures place { R.place rd.new ≡ R.place rd.old }
    ensures memory { T.takes_memory false ≡ false → IfErr result (λ e. e ≢ Error.OutOfMemory) }
{
    read_moved::<R, T, ByType<'de>>(alloc, rd)
}

/// Reads a value from the beginning of what a source gives; for a source that is used again call `read`, which
/// promises what is left.
///
/// # Errors
/// Unless the source failed, any error but `OutOfMemory` means that what it gives doesn't begin with the encoding of a
/// message that the type reads.
///
/// # Examples
/// ```
/// use rmp_serde::from_read;
/// use std::io::Cursor;
///
/// let mut messages = Cursor::new([0x2a, 0xa2, 0x69, 0x74].as_slice());
/// let number: u8 = from_read(alloc, &mut messages)?;
/// let text: String = from_read(alloc, &mut messages)?;
/// assert_eq!(rt; number, 42);
/// assert_eq!(rt; text.as_str(), "it");
/// ```
pub fn from_read<'de, R: Source + Drop, T: Deserialize<'de, ReadReader<R>>>(
    alloc: Global,
    mut rd: R,
) -> Result<T, Error>
    // The value is the reading of a tree that a prefix of the source's bytes encodes.
    ensures ok { IfOk result (λ v. IfSome (R.ahead rd) (Begins Spells (λ m. T.reads false false m v) 1024)) }
    // It is the reading of a tree, also if the source doesn't tell its bytes. In some state of the source, with the same place, that tree's
    // encoding alone is consumed, if the source tells its bytes.
    ensures taken { IfOk result (TakenFrom R.Source (T.reads false false) rd) }
    // An error that is neither for memory nor for a fault means that no prefix encodes a tree that the type reads.
    ensures err { IfErr result (RefusedFrom R.Source (T.reads false false) (T.refuses source_setting) rd) }
    ensures memory { T.takes_memory false ≡ false → IfErr result (λ e. e ≢ Error.OutOfMemory) }
{
    read(alloc, &mut rd)
}
