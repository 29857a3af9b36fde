//! The fields of structs, one after another.
ghost use Rattle.std.specs.Prelude.{◌≡◌, ◌≢◌, ◌-◌, ◌<◌, ◌^◌, Some, None, true, false, IfSome, IfNone, IfOk, IfErr, OnOk, OnErr};
ghost use Rattle.std.specs.Prelude.{MatchResult};
ghost use Rattle.rmp_decode.specs.FieldAccess.{IsStructOpen, SameStruct, AtField, AtFieldValue, TakesPlace, NoPlace, FailsPlace, ReadsName};
ghost use Rattle.rmp_decode.specs.FieldAccess.{TakesField, FailsField, ValueRefused};
ghost use Rattle.rmp_decode.specs.FieldAccess.{is_of_map, fields_left, fields_in, owes_field, is_struct_sound, struct_lender, struct_reference};
ghost use Rattle.rmp_decode.specs.FieldAccess.{as_map, unsound, CanReadField, FieldRead};
ghost use Rattle.rmp_decode.specs.Law.{IsFailedBefore};
ghost use Rattle.rmp_decode.specs.Maps.{AtKey};
ghost use Rattle.rmp_decode.specs.State.{left, is_failed};
ghost use Rattle.rmp_decode.specs.Words.{field_of, fitting};

pub(crate) mod recursive;

use crate::access::fields::Passed;
use crate::access::seq::data_fault;
use crate::de::Deserialize;
use crate::deserializer::Deserializer;
use crate::error::Error;
use crate::text::Text;
use rmp_wire::config::SerializerConfig;
use rmp_wire::{ReadSlice, Source};

/// The fields of a struct that is being read: of each, its place among the names, and then its value.
///
/// The reader counts as failed until `end` returns `Ok`; an access that is dropped earlier leaves it failed.
#[derive(Drop)]
pub struct FieldAccess<'x, R, C> {
    pub(crate) de: &'x mut Deserializer<R, C>,
    pub(crate) names: &'x [&'x str],
    pub(crate) left: u32,
    pub(crate) count: u32,
    pub(crate) inner: u32,
    pub(crate) is_map: bool,
    pub(crate) bytes: bool,
    pub(crate) owes: bool,
    pub(crate) sound: bool,
    // the fields of a map that were read so far, a bit for each place
    pub(crate) met: u128,
}

// The bit of a place.
#[inline(always)]
fn bit_of(place: usize) -> u128
    ensures { place < 128 → result ≡ 2 ^ place }
{
    if place < 128 { 1 << place } else { 0 }
}

impl<'x, R: Source, C: SerializerConfig> FieldAccess<'x, R, C> {
    /// Returns how many elements or pairs haven't begun.
    pub fn left(&self) -> u32
        ensures { result ≡ fields_left self.now }
    {
        self.left
    }

    /// Returns whether a place was returned whose value hasn't been read.
    pub fn owes_value(&self) -> bool
        ensures { result ≡ owes_field self.now }
    {
        self.owes
    }

    // Reads keys up to the next one that is a name, and skips the pairs of the others.
    #[inline(always)]
    fn next_named<'de>(&mut self) -> Result<Option<usize>, Error>
    where
        R: ReadSlice<'de>,
        requires { AtKey (as_map self.old) }
        ensures { ReadsName R.Source C.human R.lends self.old self.new result }
    {
        while self.left > 0 {
            self.sound = false;
            let name = match self.de.name_part(self.inner, self.names) {
                Ok(name) => name,
                Err(e) => return Err(e),
            };
            self.left -= 1;
            if let Some(place) = name {
                self.owes = true;
                self.sound = true;
                return Ok(Some(place));
            }
            match self.de.part::<Passed>(self.inner) {
                Ok(_) => {}
                Err(e) => return Err(e),
            }
            self.sound = true;
        }
        Ok(None)
    }

    /// Returns the place of the next field among the names, if there is one. In a list it is the number of elements
    /// before it. In a map it is that of the next key that is one of the names; other pairs are skipped. The field's
    /// value has to be read next.
    ///
    /// # Errors
    /// `Syntax("invalid length")` for a list of fewer elements than names. For a map: `Syntax("invalid type")` for a
    /// key that is no text, bytes or number from 0 on, `Syntax("duplicate field")` for a second field of one name,
    /// whose value isn't looked at, and the errors of a pair that is skipped.
    #[inline(always)]
    pub fn next_field<'de>(&mut self) -> Result<Option<usize>, Error>
    where
        R: ReadSlice<'de>,
        requires { AtField self.old }
        ensures same_reference { struct_reference self.new ≡ struct_reference self.old }
        ensures same { SameStruct self.old self.new }
        ensures none { IsStructOpen self.old → IfOk result (λ o. IfNone o (NoPlace R.Source self.old self.new)) }
        ensures some { IsStructOpen self.old → IfOk result (λ o. IfSome o (TakesPlace R.Source self.old self.new)) }
        ensures err { IsStructOpen self.old → IfErr result
            (FailsPlace R.Source C.human R.lends self.old self.new) }
        ensures fewer { IfOk result (λ o. IfSome o (λ _. fields_left self.new < fields_left self.old)) }
        ensures failed { OnErr result (is_struct_sound self.new ≡ false) }
        ensures before { is_struct_sound self.old ≡ false → MatchResult result (λ _. ⊥) IsFailedBefore × (self.new ≡ self.old) }
    {
        if !self.sound {
            return Err(Error::Uncategorized(Text::FailedBefore));
        }
        if self.is_map {
            let place = match self.next_named() {
                Ok(Some(place)) => place,
                Ok(None) => return Ok(None),
                Err(e) => return Err(e),
            };
            let bit = bit_of(place);
            if self.met & bit != 0 {
                self.sound = false;
                return Err(Error::Syntax(Text::DuplicateField));
            }
            self.met |= bit;
            return Ok(Some(place));
        }
        let place = self.count.saturating_sub(self.left) as usize;
        if place >= self.names.len() {
            return Ok(None);
        }
        if self.left == 0 {
            self.sound = false;
            return Err(Error::Syntax(Text::InvalidLength));
        }
        self.left -= 1;
        self.owes = true;
        Ok(Some(place))
    }

    /// Reads the value of the field whose place was returned last.
    ///
    /// # Errors
    /// Those of the value's type, and `InvalidDataRead` if bytes that are read as a list end too soon.
    #[inline(always)]
    pub fn next_value<'de, T: Deserialize<'de, R>>(&mut self) -> Result<T, Error>
    where
        R: ReadSlice<'de>,
        requires { AtFieldValue self.old }
        ensures same_reference { struct_reference self.new ≡ struct_reference self.old }
        ensures same { SameStruct self.old self.new }
        ensures ok { IsStructOpen self.old → IfOk result
            (TakesField R.Source (T.reads C.human R.lends) self.old self.new) }
        ensures err { IsStructOpen self.old → IfErr result
            (FailsField R.Source (T.reads C.human R.lends) self.old self.new) }
        ensures refused { IsStructOpen self.old → IfErr result
            (ValueRefused R.Source C.human R.lends T.refuses self.old self.new) }
        ensures memory { T.takes_memory R.lends ≡ false → IfErr result (λ e. e ≢ Error.OutOfMemory) }
        ensures left { fields_left self.new ≡ fields_left self.old }
        ensures failed { OnErr result (is_struct_sound self.new ≡ false) }
        ensures before { is_struct_sound self.old ≡ false → MatchResult result (λ _. ⊥) IsFailedBefore × (self.new ≡ self.old) }
    {
        if !self.sound {
            return Err(Error::Uncategorized(Text::FailedBefore));
        }
        self.sound = false;
        match self.de.offer_part(self.bytes) {
            Ok(()) => {}
            Err(fault) => return Err(data_fault(fault)),
        }
        match self.de.part(self.inner) {
            Ok(value) => {
                self.owes = false;
                self.sound = true;
                Ok(value)
            }
            Err(e) => Err(e),
        }
    }

    /// Reads the value of the field whose place was returned last by `f`, which gets the reader before the value. An
    /// `f` that returns `Ok` must have read the value and nothing else.
    ///
    /// # Errors
    /// Those of `f`, and `Uncategorized("failed before")` if `f` returned `Ok` but left the reader failed.
    /// `InvalidDataRead` if bytes that are read as a list end too soon, without calling `f`.
    #[inline(never)]
    pub fn next_value_with<X: Drop, F>(&mut self, f: F) -> Result<X, Error>
    where
        F: FnOnce(&mut Deserializer<R, C>) -> Result<X, Error>,
        requires at_value { AtFieldValue self.old }
        requires part { is_struct_sound self.old ≡ true → CanReadField R.Source F.FnOnce f self.old }
        ensures same_reference { struct_reference self.new ≡ struct_reference self.old }
        ensures same { SameStruct self.old self.new }
        ensures before { is_struct_sound self.old ≡ false → MatchResult result (λ _. ⊥) IsFailedBefore × (self.new ≡ self.old) }
        ensures part { IsStructOpen self.old → FieldRead R.Source F.FnOnce f self.old self.new result }
        ensures owes { OnOk result (owes_field self.new ≡ false) }
        ensures left { fields_left self.new ≡ fields_left self.old }
        ensures still { OnOk result (is_struct_sound self.new ≡ true) }
        ensures failed { OnErr result (is_struct_sound self.new ≡ false) }
        ensures marked { is_failed (struct_lender self.old) ≡ true → is_failed (struct_lender self.new) ≡ true }
    {
        if !self.sound {
            return Err(Error::Uncategorized(Text::FailedBefore));
        }
        self.sound = false;
        match self.de.offer_part(self.bytes) {
            Ok(()) => {}
            Err(fault) => return Err(data_fault(fault)),
        }
        match self.de.part_with(self.inner, f) {
            Ok(part) => {
                self.owes = false;
                self.sound = true;
                Ok(part)
            }
            Err(e) => Err(e),
        }
    }

    /// Returns the value of the field of this name, which is missing: in a map the one that its type has for it, and in a
    /// list none.
    ///
    /// # Errors
    /// `Syntax("missing field")`, with the name, if there is none.
    #[inline(always)]
    pub fn missing_field<'de, T: Deserialize<'de, R>>(&mut self, name: &str) -> Result<T, Error>
    where
        R: ReadSlice<'de>,
        ensures same_reference { struct_reference self.new ≡ struct_reference self.old }
        ensures ok { IfOk result (λ v. (is_of_map self.old ≡ true) × (T.absent ≡ Some v) × (self.new ≡ self.old)) }
        ensures err { is_struct_sound self.old ≡ true → IfErr result (λ e. (field_of e ≡ Some (fitting name.now))
            × (is_of_map self.old ≡ true → T.absent ≡ None) × (self.new ≡ unsound self.old)) }
        ensures failed { OnErr result (is_struct_sound self.new ≡ false) }
        ensures before { is_struct_sound self.old ≡ false → MatchResult result (λ _. ⊥) IsFailedBefore × (self.new ≡ self.old) }
    {
        self.missing_field_or(name, T::missing())
    }

    /// Ends the struct. The reader is ready again.
    ///
    /// The value of each field whose place was returned has to be read first.
    ///
    /// # Errors
    /// `LengthMismatch` with the number of elements or pairs that were read, if any remain. They aren't looked at.
    #[inline(always)]
    pub fn end(self) -> Result<(), Error>
        requires { AtField self }
        ensures ok { IsStructOpen self.entry → OnOk result ((fields_left self.entry ≡ 0)
            × (self.exit.0.now ≡ record (struct_lender self.entry) { failed = false })) }
        ensures err { IsStructOpen self.entry → IfErr result (λ e. (0 < fields_left self.entry) × (self.exit.0.now ≡ struct_lender self.entry)
            × (e ≡ Error.LengthMismatch (fields_in self.entry - fields_left self.entry))) }
        ensures before { is_struct_sound self.entry ≡ false → MatchResult result (λ _. ⊥) IsFailedBefore × (self.exit.0.now ≡ struct_lender self.entry) }
    {
        let (left, count, sound) = (self.left, self.count, self.sound);
        self.de.end_parts(left, count, sound)
    }
}
