//! Heads of any kind, from the source or from what was kept back: the slow path. Those of small numbers, texts and lists and of numbers
//! without a sign are read in place, all others by a call.
ghost use Rattle.std.specs.Prelude.{◌≡◌, ◌∷◌, ℕ, List, true, false, Ok, IfOk, IfErr, ◌<◌, ◌≤◌};
ghost use Rattle.rmp_wire.specs.Canonical.{heads_of};
ghost use Rattle.rmp_wire.specs.Heads.{IsHead};
ghost use Rattle.rmp_wire.specs.Taking.{byte_of};
ghost use Rattle.rmp_decode.specs.Allowed.{AfterAllowed, FailsAfter, NextAllowed, FailsNextAllowed};
ghost use Rattle.rmp_decode.specs.Law.{ReadsHead};
ghost use Rattle.rmp_decode.specs.Opening.{IsLevel, FailsAtHead};

use crate::deserializer::{Deserializer, Kept};
use crate::error::Error;
use crate::text::Text;
use rmp_wire::config::SerializerConfig;
use rmp_wire::read::{number_8, number_16, number_32, read_head, read_marker};
use rmp_wire::{Head, IoFault, Marker, MarkerReadError, Source, ValueReadError, is_canonical};

// Why no head could be read: the error of the wire, or in a strict read that it isn't canonical.
#[derive(Clone, Copy)]
pub(crate) enum HeadError {
    InvalidMarkerRead(IoFault),
    InvalidDataRead(IoFault),
    TypeMismatch(Marker),
    NotCanonical,
}

impl From<MarkerReadError> for HeadError {
    ghost use Rattle.rmp_decode.specs.declared.deserializer.heads.HeadError.TheVariants as heads;

    ghost from_gives = { λ e error. error ≡ heads.InvalidMarkerRead e.0 };

    #[inline(always)]
    fn from(e: MarkerReadError) -> HeadError {
        HeadError::InvalidMarkerRead(e.0)
    }
}

impl From<ValueReadError> for HeadError {
    ghost use Rattle.rmp_decode.specs.ReadErrors.{of_wire};

    ghost from_gives = { λ e error. error ≡ of_wire e };

    #[inline(always)]
    fn from(e: ValueReadError) -> HeadError {
        match e {
            ValueReadError::InvalidMarkerRead(fault) => HeadError::InvalidMarkerRead(fault),
            ValueReadError::InvalidDataRead(fault) => HeadError::InvalidDataRead(fault),
            ValueReadError::TypeMismatch(marker) => HeadError::TypeMismatch(marker),
        }
    }
}

impl From<HeadError> for Error {
    ghost use Rattle.rmp_decode.specs.ReadErrors.{head_error_of};

    ghost from_gives = { λ e error. error ≡ head_error_of e };

    #[inline(always)]
    fn from(e: HeadError) -> Error {
        match e {
            HeadError::InvalidMarkerRead(fault) => Error::InvalidMarkerRead(fault),
            HeadError::InvalidDataRead(fault) => Error::InvalidDataRead(fault),
            HeadError::TypeMismatch(marker) => Error::TypeMismatch(marker),
            HeadError::NotCanonical => Error::NotCanonical,
        }
    }
}

// Which heads count as a level of nesting, where they are wanted.
#[derive(Clone, Copy)]
pub(crate) enum Levels {
    Lists,
    Maps,
    // Maps of one pair.
    Pairs,
    // Lists and maps.
    Parts,
}

impl Levels {
    #[inline(always)]
    fn has(self, head: Head) -> bool
        ensures yes { result ≡ true → IsLevel self head }
        ensures no { result ≡ false → IsLevel self head → ⊥ }
    {
        match self {
            Levels::Lists => head.as_array().is_some(),
            Levels::Maps => head.as_map().is_some(),
            Levels::Pairs => head.as_map() == Some(1),
            Levels::Parts => head.as_parts().is_some(),
        }
    }
}

// Whether a head is accepted: any, or in a strict read the canonical one.
#[inline(always)]
fn allows(strict: bool, marker: Marker, head: &Head) -> bool
    ensures allowed { result ≡ true → (rest : List ℕ) → IsHead head.now (byte_of marker ∷ rest) → heads_of strict head.now (byte_of marker ∷ rest) }
    ensures other { result ≡ false → (rest : List ℕ) → heads_of strict head.now (byte_of marker ∷ rest) → ⊥ }
{
    !strict || is_canonical(marker, head)
}

// Reads the rest of a head after its marker's byte, out of line, so that the reads of the common heads stay small. In a
// strict read, heads are tested here.
#[inline(never)]
pub(crate) fn rest_of_head<S: Source>(
    strict: bool,
    marker: Marker,
    source: &mut S,
) -> Result<Head, HeadError>
    ensures taken { IfOk result (AfterAllowed S.Source strict marker source.old source.new) }
    ensures refused { IfErr result (FailsAfter S.Source strict marker source.old source.new) }
{
    match read_head(marker, source) {
        Ok(head) => {
            if allows(strict, marker, &head) {
                Ok(head)
            } else {
                Err(HeadError::NotCanonical)
            }
        }
        Err(e) => Err(HeadError::from(e)),
    }
}

// Reads the rest of a head after its marker's byte. A head of one byte is canonical.
#[inline(always)]
fn head_of<S: Source>(strict: bool, marker: Marker, source: &mut S) -> Result<Head, HeadError>
    ensures taken { IfOk result (AfterAllowed S.Source strict marker source.old source.new) }
    ensures refused { IfErr result (FailsAfter S.Source strict marker source.old source.new) }
{
    match marker {
        Marker::FixPos(n) => Ok(Head::Whole(i128::from(n % 0x80))),
        Marker::FixStr(n) => Ok(Head::Text(u32::from(n % 0x20))),
        Marker::FixArray(n) => Ok(Head::Array(u32::from(n % 0x10))),
        Marker::FixMap(n) => Ok(Head::Map(u32::from(n % 0x10))),
        Marker::U8 if !strict => Ok(Head::Whole(i128::from(number_8(source)?))),
        Marker::U16 if !strict => Ok(Head::Whole(i128::from(number_16(source)?))),
        Marker::U32 if !strict => Ok(Head::Whole(i128::from(number_32(source)?))),
        _ => rest_of_head(strict, marker, source),
    }
}

// Consumes one head, and returns its marker too.
#[inline(always)]
pub(crate) fn next_head<S: Source>(
    strict: bool,
    source: &mut S,
) -> Result<(Marker, Head), HeadError>
    ensures taken { IfOk result (NextAllowed S.Source strict source.old source.new) }
    ensures refused { IfErr result (FailsNextAllowed S.Source strict source.old source.new) }
{
    let marker = read_marker(source)?;
    let head = head_of(strict, marker, source)?;
    Ok((marker, head))
}

impl<R: Source, C: SerializerConfig> Deserializer<R, C> {
    // Consumes one head. The reader counts as failed until the message that the head begins is read.
    #[inline(always)]
    pub(crate) fn head(&mut self) -> Result<(Marker, Head), Error>
        ensures { ReadsHead R.Source self.old self.new result }
    {
        if self.failed {
            return Err(Error::Uncategorized(Text::FailedBefore));
        }
        self.failed = true;
        match self.kept {
            Kept::Nothing => match next_head(self.strict, &mut self.reader) {
                Ok(next) => Ok(next),
                Err(e) => Err(Error::from(e)),
            },
            Kept::First(byte) => {
                self.kept = Kept::Nothing;
                let marker = Marker::from_u8(byte);
                match rest_of_head(self.strict, marker, &mut self.reader) {
                    Ok(head) => Ok((marker, head)),
                    Err(e) => Err(Error::from(e)),
                }
            }
            Kept::Number(n) => {
                self.kept = Kept::Nothing;
                Ok((number_marker(n), Head::Whole(i128::from(n))))
            }
        }
    }
}

impl<R: Source, C: SerializerConfig> Deserializer<R, C> {
    // Consumes the head of any message, unless it is a level that nests too deep.
    #[inline(always)]
    pub(crate) fn opening(&mut self, levels: Levels) -> Result<(Marker, Head), Error>
        ensures begun { IfOk result (λ p. ReadsHead R.Source self.old self.new (Ok p)) }
        ensures deep { IfOk result (λ p. IsLevel levels p.1 → 1 < self.old.room) }
        ensures err { IfErr result (FailsAtHead R.Source levels self.old self.new) }
    {
        match self.head() {
            Ok((marker, head)) => {
                if levels.has(head) && self.is_deepest() {
                    return Err(Error::DepthLimitExceeded);
                }
                Ok((marker, head))
            }
            Err(e) => Err(e),
        }
    }
}

// The marker of the canonical head of a byte that is read as a number.
#[inline(always)]
fn number_marker(n: u8) -> Marker
    ensures small { n < 128 → result ≡ Marker.FixPos n }
    ensures wide { 128 ≤ n → result ≡ Marker.U8 }
{
    if n < 0x80 {
        Marker::FixPos(n)
    } else {
        Marker::U8
    }
}
