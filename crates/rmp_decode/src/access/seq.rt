//! Lists, and bytes as the lists of their numbers, element by element.
ghost use Rattle.std.specs.Prelude.{◌≡◌, ◌≢◌, ◌-◌, ◌<◌, ◌∷◌, ℕ, List, true, false, IfSome, IfNone, IfOk, IfErr, OnOk, OnErr, MatchResult, ◌⊎◌, Ok};
ghost use Rattle.std.specs.Prelude.{None};
ghost use Rattle.rmp_decode.specs.Law.{IsFailedBefore};
ghost use Rattle.rmp_decode.specs.Refusing.{ElementRefused, WhereSome, Wanted, ReadsElement};
ghost use Rattle.rmp_decode.specs.Seq.{IsOpen, TakesElement, FailsToTake, FailsElement, left_in, count_in, in_bytes, is_sound, lender_of, reference_of};
ghost use Rattle.rmp_decode.specs.State.{left, is_failed};
ghost use Rattle.rmp_decode.specs.With.{CanRead, PartRead, PartMissing, SameList, Offers, OffersAhead};

use crate::de::Deserialize;
use crate::deserializer::{Deserializer, Kept};
use crate::error::Error;
use crate::text::Text;
use rmp_wire::config::SerializerConfig;
use rmp_wire::{IoFault, ReadSlice, Source};

/// The elements of a list that is being read, or the numbers of bytes.
///
/// The reader counts as failed until `end` returns `Ok`; an access that is dropped earlier leaves it failed.
#[derive(Drop)]
pub struct SeqAccess<'x, R, C> {
    pub(crate) de: &'x mut Deserializer<R, C>,
    pub(crate) left: u32,
    pub(crate) count: u32,
    pub(crate) inner: u32,
    pub(crate) bytes: bool,
    pub(crate) sound: bool,
}

impl<R: Source, C: SerializerConfig> Deserializer<R, C> {
    // Consumes a buffered byte, and keeps it back as a number. Returns `false` and consumes nothing otherwise.
    #[inline(always)]
    fn keep_buffered(&mut self) -> bool
        ensures { OffersAhead R.Source self.old self.new result }
    {
        match first_of(self.reader.front()) {
            Some(byte) => {
                if self.reader.skip(1) {
                    self.kept = Kept::Number(byte);
                    true
                } else {
                    false
                }
            }
            None => false,
        }
    }

    // Prepares the next element: where bytes are read as a list, a byte is kept back as a number. It returns only the
    // source's fault, since a larger error would be copied for each element. The fast path is for a buffered byte.
    #[inline(always)]
    pub(crate) fn offer_part(&mut self, bytes: bool) -> Result<(), IoFault>
        ensures { Offers R.Source bytes self.old self.new result }
    {
        if !bytes {
            return Ok(());
        }
        if self.keep_buffered() {
            return Ok(());
        }
        match self.reader.take_1() {
            Ok(bytes) => {
                self.kept = Kept::Number(bytes[0]);
                Ok(())
            }
            Err(fault) => Err(fault),
        }
    }
}

// The first byte of some.
#[inline(always)]
pub(crate) fn first_of(front: &[u8]) -> Option<u8>
    ensures { IfSome result (λ byte. (rest : List ℕ) × (front.now ≡ byte ∷ rest)) }
{
    match front {
        [byte, ..] => Some(*byte),
        _ => None,
    }
}

// The error of a fault after a head. It is a call: made in place, the error would have the compiler split the vector that is returned
// otherwise.
#[inline(never)]
pub(crate) fn data_fault(fault: IoFault) -> Error
    ensures { result ≡ Error.InvalidDataRead fault }
{
    Error::InvalidDataRead(fault)
}

impl<'x, R: Source, C: SerializerConfig> SeqAccess<'x, R, C> {
    /// Returns how many elements remain.
    pub fn left(&self) -> u32
        ensures { result ≡ left_in self.now }
    {
        self.left
    }

    // Reads a byte as a number. It has no hint to inline, so that the read of a list's element stays small.
    fn numbered<'de, T: Deserialize<'de, R>>(&mut self) -> Result<T, Error>
    where
        R: ReadSlice<'de>,
        requires some { 0 < left_in self.old }
        requires bytes { in_bytes self.old ≡ true }
        ensures { ReadsElement R.Source C.human R.lends T.reads T.refuses (T.takes_memory R.lends) self.old self.new result }
    {
        self.sound = false;
        match self.de.offer_part(true) {
            Ok(()) => {}
            Err(fault) => return Err(data_fault(fault)),
        }
        match self.de.part(self.inner) {
            Ok(v) => {
                self.de.kept = Kept::Nothing;
                self.left -= 1;
                self.sound = true;
                Ok(v)
            }
            Err(e) => Err(e),
        }
    }

    /// Reads the next element, if there is one.
    #[inline(always)]
    pub fn next_element<'de, T: Deserialize<'de, R>>(&mut self) -> Result<Option<T>, Error>
    where
        R: ReadSlice<'de>,
        ensures same_reference { reference_of self.new ≡ reference_of self.old }
        ensures none { IsOpen self.old → IfOk result (λ o. IfNone o ((left_in self.old ≡ 0) × (self.new ≡ self.old))) }
        ensures some { IsOpen self.old → IfOk result (λ o. IfSome o
            (TakesElement R.Source (T.reads C.human R.lends) self.old self.new)) }
        ensures err { IsOpen self.old → IfErr result (FailsToTake R.Source (T.reads C.human R.lends) self.old self.new) }
        ensures refused { IsOpen self.old → IfErr result (WhereSome
            (ElementRefused R.Source C.human R.lends T.refuses self.old self.new) (left_in self.old)
            (left R.Source (lender_of self.old))) }
        ensures memory { T.takes_memory R.lends ≡ false → IfErr result (λ e. e ≢ Error.OutOfMemory) }
        ensures failed { OnErr result (is_sound self.new ≡ false) }
        ensures marked { is_failed (lender_of self.old) ≡ true → is_failed (lender_of self.new) ≡ true }
        ensures before { is_sound self.old ≡ false → MatchResult result (λ _. ⊥) IsFailedBefore × (self.new ≡ self.old) }
    {
        if !self.sound {
            return Err(Error::Uncategorized(Text::FailedBefore));
        }
        if self.left == 0 {
            return Ok(None);
        }
        if self.bytes {
            return match self.numbered() {
                Ok(v) => Ok(Some(v)),
                Err(e) => Err(e),
            };
        }
        self.sound = false;
        match self.de.part(self.inner) {
            Ok(v) => {
                self.de.kept = Kept::Nothing;
                self.left -= 1;
                self.sound = true;
                Ok(Some(v))
            }
            Err(e) => Err(e),
        }
    }

    /// Reads the next element, which has to be there.
    ///
    /// # Errors
    /// `Syntax("invalid length")` if there is none.
    #[inline(always)]
    pub fn element<'de, T: Deserialize<'de, R>>(&mut self) -> Result<T, Error>
    where
        R: ReadSlice<'de>,
        ensures same_reference { reference_of self.new ≡ reference_of self.old }
        ensures ok { IsOpen self.old → IfOk result (TakesElement R.Source (T.reads C.human R.lends) self.old self.new) }
        ensures err { IsOpen self.old → IfErr result (FailsElement R.Source (T.reads C.human R.lends) self.old self.new) }
        ensures refused { IsOpen self.old → IfErr result (Wanted
            (ElementRefused R.Source C.human R.lends T.refuses self.old self.new) (left_in self.old)
            (left R.Source (lender_of self.old))) }
        ensures memory { T.takes_memory R.lends ≡ false → IfErr result (λ e. e ≢ Error.OutOfMemory) }
        ensures failed { OnErr result (is_sound self.new ≡ false) }
        ensures marked { is_failed (lender_of self.old) ≡ true → is_failed (lender_of self.new) ≡ true }
        ensures before { is_sound self.old ≡ false → MatchResult result (λ _. ⊥) IsFailedBefore × (self.new ≡ self.old) }
    {
        match self.next_element() {
            Ok(Some(item)) => Ok(item),
            Ok(None) => {
                self.sound = false;
                Err(Error::Syntax(Text::InvalidLength))
            }
            Err(e) => Err(e),
        }
    }

    /// Reads the next element by `f`, if there is one. `f` gets the reader before the element. An `f` that returns `Ok`
    /// must have read the element and nothing else.
    ///
    /// # Errors
    /// Those of `f`, and `Uncategorized("failed before")` if `f` returned `Ok` but left the reader failed.
    /// `InvalidDataRead` if bytes that are read as a list end too soon, without calling `f`.
    #[inline(never)]
    pub fn next_element_with<X: Drop, F>(&mut self, f: F) -> Result<Option<X>, Error>
    where
        F: FnOnce(&mut Deserializer<R, C>) -> Result<X, Error>,
        requires { is_sound self.old ≡ true → 0 < left_in self.old → CanRead R.Source F.FnOnce f self.old }
        ensures same_reference { reference_of self.new ≡ reference_of self.old }
        ensures list { SameList self.old self.new }
        ensures before { is_sound self.old ≡ false → MatchResult result (λ _. ⊥) IsFailedBefore × (self.new ≡ self.old) }
        ensures none { is_sound self.old ≡ true → left_in self.old ≡ 0 → (result ≡ Ok None) × (self.new ≡ self.old) }
        ensures part { is_sound self.old ≡ true → 0 < left_in self.old
            → PartRead R.Source F.FnOnce f self.old self.new result ⊎ PartMissing R.Source self.old self.new result }
        ensures still { OnOk result (is_sound self.new ≡ true) }
        ensures broken { OnErr result (is_sound self.new ≡ false) }
        ensures marked { is_failed (lender_of self.old) ≡ true → is_failed (lender_of self.new) ≡ true }
    {
        if !self.sound {
            return Err(Error::Uncategorized(Text::FailedBefore));
        }
        if self.left == 0 {
            return Ok(None);
        }
        self.sound = false;
        match self.de.offer_part(self.bytes) {
            Ok(()) => {}
            Err(fault) => return Err(data_fault(fault)),
        }
        match self.de.part_with(self.inner, f) {
            Ok(part) => {
                self.left -= 1;
                self.sound = true;
                Ok(Some(part))
            }
            Err(e) => Err(e),
        }
    }

    /// Ends the list. The reader is ready again.
    ///
    /// # Errors
    /// `LengthMismatch` with the number of elements that were read, if any remain. They aren't looked at.
    #[inline(always)]
    pub fn end(self) -> Result<(), Error>
        ensures ok { IsOpen self.entry → OnOk result ((left_in self.entry ≡ 0) × (self.exit.0.now ≡ record (lender_of self.entry) { failed = false })) }
        ensures err { IsOpen self.entry → IfErr result (λ e. (0 < left_in self.entry) × (self.exit.0.now ≡ lender_of self.entry)
            × (e ≡ Error.LengthMismatch (count_in self.entry - left_in self.entry))) }
        ensures before { is_sound self.entry ≡ false → MatchResult result (λ _. ⊥) IsFailedBefore × (self.exit.0.now ≡ lender_of self.entry) }
    {
        let (left, count, sound) = (self.left, self.count, self.sound);
        self.de.end_parts(left, count, sound)
    }
}
