//! The payload of texts, bytes and extensions.
ghost use Rattle.std.specs.Prelude.{◌≡◌, ◌≢◌, Bool, true, OnOk, OnErr, IfOk, IfErr, length};
ghost use Rattle.std.specs.Io.KnownBytes.{Consumes};
ghost use Rattle.rmp_wire.specs.Sources.{IsShort};
ghost use Rattle.rmp_wire.specs.Spelling.{IsBytes};
ghost use Rattle.rmp_decode.specs.Exact.{IsDataEnd, TellsFault};
ghost use Rattle.rmp_decode.specs.Law.{Explains};
ghost use Rattle.rmp_decode.specs.Kinds.{raw_head};
ghost use Rattle.rmp_decode.specs.Names.{bytes_of};
ghost use Rattle.rmp_decode.specs.Pieces.{RefusesPiece};
ghost use Rattle.rmp_decode.specs.Skip.{Passes};
ghost use Rattle.rmp_decode.specs.Steps.{Appends};
ghost use Rattle.rmp_decode.specs.VariantNames.{TakesName, StartsWithNoName, unknown_name};

mod chars;
pub(crate) mod cold;
pub(crate) mod pieces;
mod texts;

use crate::access::names::place_of;
use crate::access::variant::unknown_name;
use crate::content::pieces::{error_of, owned};
use crate::error::Error;
use rmp_wire::{ReadSlice, Source};
use std::alloc::Global;
use std::marker::PhantomData;

/// Reads payloads. A recursive function can't have a bound that names a lifetime, so it has this one in place of
/// `ReadSlice`, and its first caller passes `Slices`.
pub trait ReadContent<R: Source> {
    // Whether payloads are skipped without memory.
    ghost lends: { Bool };

    /// Skips the next bytes.
    ///
    /// # Errors
    /// `InvalidDataRead` if the input ends too soon or the source fails, and `OutOfMemory`, unless the source lends its
    /// bytes.
    fn pass(reader: &mut R, len: usize) -> Result<(), Error>
        ensures ok { OnOk result (Passes len (R.ahead reader.old) (R.ahead reader.new)) }
        ensures sound { OnOk result (R.faults reader.new ≡ R.faults reader.old) }
        ensures err { IfErr result (λ e. Explains e (R.faults reader.old) (R.faults reader.new) (IsShort len (R.ahead reader.old))) }
        ensures end { IfErr result (λ e. Explains e (R.faults reader.old) (R.faults reader.new) (IsDataEnd e)) }
        ensures fault { IfErr result (TellsFault (R.faults reader.old) (R.faults reader.new)) }
        ensures memory { lends ≡ true → IfErr result (λ e. e ≢ Error.OutOfMemory) }
        ensures place { R.place reader.new ≡ R.place reader.old };

    /// Reads the next bytes into a vector.
    ///
    /// # Errors
    /// Those of `pass`.
    fn take(alloc: Global, reader: &mut R, len: usize) -> Result<Vec<u8>, Error>
        ensures ok { IfOk result (λ v. (length v.items ≡ len) × IsBytes v.items × Consumes (R.ahead reader.old) (R.ahead reader.new) v.items) }
        ensures sound { OnOk result (R.faults reader.new ≡ R.faults reader.old) }
        ensures err { IfErr result (λ e. Explains e (R.faults reader.old) (R.faults reader.new) (IsShort len (R.ahead reader.old))) }
        ensures end { IfErr result (λ e. Explains e (R.faults reader.old) (R.faults reader.new) (IsDataEnd e)) }
        ensures fault { IfErr result (TellsFault (R.faults reader.old) (R.faults reader.new)) }
        ensures place { R.place reader.new ≡ R.place reader.old };

    /// Reads the next bytes, and appends them to a vector, which is unchanged on an error.
    ///
    /// # Errors
    /// Those of `take`.
    fn append(reader: &mut R, len: usize, bytes: &mut Vec<u8>) -> Result<(), Error>
        ensures ok { OnOk result (Appends len (R.ahead reader.old) (R.ahead reader.new) bytes.old.items bytes.new.items) }
        ensures kept { OnErr result (bytes.new.items ≡ bytes.old.items) }
        ensures sound { OnOk result (R.faults reader.new ≡ R.faults reader.old) }
        ensures err { IfErr result (λ e. Explains e (R.faults reader.old) (R.faults reader.new) (IsShort len (R.ahead reader.old))) }
        ensures end { IfErr result (λ e. Explains e (R.faults reader.old) (R.faults reader.new) (IsDataEnd e)) }
        ensures fault { IfErr result (TellsFault (R.faults reader.old) (R.faults reader.new)) }
        ensures place { R.place reader.new ≡ R.place reader.old };

    /// Reads the next bytes as the name of a variant, and returns its place among the names.
    ///
    /// # Errors
    /// Those of `pass`; `Utf8Error` for a text that isn't UTF-8; and `Syntax("unknown variant")` for any other text, or
    /// bytes, that are none of the names.
    fn variant(reader: &mut R, names: &[&str], is_text: bool, len: usize) -> Result<usize, Error>
        ensures ok { IfOk result (TakesName (bytes_of names.now) len (R.ahead reader.old) (R.ahead reader.new)) }
        ensures sound { OnOk result (R.faults reader.new ≡ R.faults reader.old) }
        ensures err { IfErr result (λ e. Explains e (R.faults reader.old) (R.faults reader.new)
            (StartsWithNoName (bytes_of names.now) len (R.ahead reader.old))) }
        ensures exact { IfErr result (λ e. Explains e (R.faults reader.old) (R.faults reader.new)
            (RefusesPiece len (unknown_name (raw_head is_text len)) (R.ahead reader.old) e)) }
        ensures fault { IfErr result (TellsFault (R.faults reader.old) (R.faults reader.new)) }
        ensures memory { lends ≡ true → IfErr result (λ e. e ≢ Error.OutOfMemory) }
        ensures place { R.place reader.new ≡ R.place reader.old };
}

/// The payloads of sources that return slices.
#[derive(Clone, Copy, Debug)]
pub struct Slices<'de> {
    of: PhantomData<&'de [u8]>,
}

impl<'de, R: ReadSlice<'de>> ReadContent<R> for Slices<'de> {
    ghost lends = { R.lends };

    #[inline(always)]
    fn pass(reader: &mut R, len: usize) -> Result<(), Error> {
        match reader.read_slice(len) {
            Ok(piece) => {
                let _bytes = piece.as_bytes();
                Ok(())
            }
            Err(e) => Err(error_of(e)),
        }
    }

    #[inline(always)]
    fn take(alloc: Global, reader: &mut R, len: usize) -> Result<Vec<u8>, Error> {
        owned(alloc, reader, len)
    }

    #[inline(always)]
    fn append(reader: &mut R, len: usize, bytes: &mut Vec<u8>) -> Result<(), Error> {
        match reader.read_slice(len) {
            Ok(piece) => match bytes.extend_from_slice(piece.as_bytes()) {
                Ok(()) => Ok(()),
                Err(_) => Err(Error::OutOfMemory),
            },
            Err(e) => Err(error_of(e)),
        }
    }

    #[inline(always)]
    fn variant(reader: &mut R, names: &[&str], is_text: bool, len: usize) -> Result<usize, Error> {
        match reader.read_slice(len) {
            Ok(piece) => {
                let name = piece.as_bytes();
                match place_of(names, name) {
                    Some(place) => Ok(place),
                    None => Err(unknown_name(is_text, name)),
                }
            }
            Err(e) => Err(error_of(e)),
        }
    }
}
