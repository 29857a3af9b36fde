//! The fields of a recursive struct.
ghost use Rattle.std.specs.Prelude.{◌≡◌, ◌<◌, ◌⊎◌, Bool, true, false, Some, None, IfSome, IfNone, IfOk, IfErr, OnErr, MatchResult};
ghost use Rattle.rmp_decode.specs.FieldAccess.{IsStructOpen, SameStruct, AtField, TakesPlace, NoPlace, FailsPlace};
ghost use Rattle.rmp_decode.specs.FieldAccess.{fields_left, is_of_map, is_struct_sound, struct_reference, unsound};
ghost use Rattle.rmp_decode.specs.Law.{IsFailedBefore};
ghost use Rattle.rmp_decode.specs.Words.{field_of, fitting};

use super::FieldAccess;
use crate::content::Slices;
use crate::error::Error;
use crate::text::Text;
use rmp_wire::config::SerializerConfig;
use rmp_wire::{ReadSlice, Source};

/// Reads the places of fields. A recursive function can't have a bound that names a lifetime, so it has this one in
/// place of `ReadSlice`, and its first caller passes `Slices`.
pub trait ReadPlaces<R: Source> {
    // Whether texts are borrowed.
    ghost lends: { Bool };

    /// Returns the place of the next field among the names, if there is one.
    ///
    /// # Errors
    /// Those of `FieldAccess::next_field`.
    fn next_field<'x, C: SerializerConfig>(
        fields: &mut FieldAccess<'x, R, C>,
    ) -> Result<Option<usize>, Error>
        requires { AtField fields.old }
        ensures same_reference { struct_reference fields.new ≡ struct_reference fields.old }
        ensures same { SameStruct fields.old fields.new }
        ensures none { IsStructOpen fields.old → IfOk result (λ o. IfNone o (NoPlace R.Source fields.old fields.new)) }
        ensures some { IsStructOpen fields.old → IfOk result (λ o. IfSome o (TakesPlace R.Source fields.old fields.new)) }
        ensures err { IsStructOpen fields.old → IfErr result
            (FailsPlace R.Source C.human lends fields.old fields.new) }
        ensures fewer { IfOk result (λ o. IfSome o (λ _. fields_left fields.new < fields_left fields.old)) }
        ensures failed { OnErr result (is_struct_sound fields.new ≡ false) }
        ensures before { is_struct_sound fields.old ≡ false → MatchResult result (λ _. ⊥) IsFailedBefore × (fields.new ≡ fields.old) };
}

impl<'de, R: ReadSlice<'de>> ReadPlaces<R> for Slices<'de> {
    ghost lends = { R.lends };

    #[inline(always)]
    fn next_field<'x, C: SerializerConfig>(
        fields: &mut FieldAccess<'x, R, C>,
    ) -> Result<Option<usize>, Error> {
        fields.next_field()
    }
}

impl<'x, R: Source, C: SerializerConfig> FieldAccess<'x, R, C> {
    /// Returns the place of the next field, as `next_field` does, for recursive structs. `P` reads it: a recursive
    /// function can't have a bound that names a lifetime, so its first caller passes `Slices`.
    ///
    /// # Errors
    /// Those of `next_field`.
    #[inline(always)]
    pub fn next_field_by<P: ReadPlaces<R>>(&mut self) -> Result<Option<usize>, Error>
        requires { AtField self.old }
        ensures same_reference { struct_reference self.new ≡ struct_reference self.old }
        ensures same { SameStruct self.old self.new }
        ensures none { IsStructOpen self.old → IfOk result (λ o. IfNone o (NoPlace R.Source self.old self.new)) }
        ensures some { IsStructOpen self.old → IfOk result (λ o. IfSome o (TakesPlace R.Source self.old self.new)) }
        ensures err { IsStructOpen self.old → IfErr result
            (FailsPlace R.Source C.human P.lends self.old self.new) }
        ensures fewer { IfOk result (λ o. IfSome o (λ _. fields_left self.new < fields_left self.old)) }
        ensures failed { OnErr result (is_struct_sound self.new ≡ false) }
        ensures before { is_struct_sound self.old ≡ false → MatchResult result (λ _. ⊥) IsFailedBefore × (self.new ≡ self.old) }
    {
        P::next_field(self)
    }

    /// Returns the value of the field of this name, which is missing, as `missing_field` does. In a map it is `absent`.
    ///
    /// # Errors
    /// `Syntax("missing field")`, with the name, if there is none.
    #[inline(always)]
    pub fn missing_field_or<T: Drop>(&mut self, name: &str, absent: Option<T>) -> Result<T, Error>
        ensures same_reference { struct_reference self.new ≡ struct_reference self.old }
        ensures ok { IfOk result (λ v. (is_of_map self.old ≡ true) × (absent ≡ Some v) × (self.new ≡ self.old)) }
        ensures err { is_struct_sound self.old ≡ true → IfErr result (λ e. (field_of e ≡ Some (fitting name.now))
            × (is_of_map self.old ≡ true → absent ≡ None) × (self.new ≡ unsound self.old)) }
        ensures failed { OnErr result (is_struct_sound self.new ≡ false) }
        ensures before { is_struct_sound self.old ≡ false → MatchResult result (λ _. ⊥) IsFailedBefore × (self.new ≡ self.old) }
    {
        if !self.sound {
            return Err(Error::Uncategorized(Text::FailedBefore));
        }
        if self.is_map {
            match absent {
                Some(value) => return Ok(value),
                None => {}
            }
        }
        self.sound = false;
        Err(Error::missing_field(name))
    }

    /// The value of the field of this name: what was read of it, or, where nothing was, that of `missing_field_or`.
    ///
    /// # Errors
    /// Those of `missing_field_or`, where nothing was read.
    #[inline(always)]
    pub fn given_or<T: Drop>(
        &mut self,
        name: &str,
        given: Option<T>,
        absent: Option<T>,
    ) -> Result<T, Error>
        ensures same_reference { struct_reference self.new ≡ struct_reference self.old }
        ensures ok { IfOk result (λ v. ((given ≡ Some v) ⊎ ((given ≡ None) × (absent ≡ Some v))) × (self.new ≡ self.old)) }
        ensures err { is_struct_sound self.old ≡ true → IfErr result (λ e. (given ≡ None) × (field_of e ≡ Some (fitting name.now))
            × (is_of_map self.old ≡ true → absent ≡ None) × (self.new ≡ unsound self.old)) }
        ensures failed { OnErr result (is_struct_sound self.new ≡ false) }
    {
        match given {
            Some(value) => Ok(value),
            None => self.missing_field_or(name, absent),
        }
    }
}
