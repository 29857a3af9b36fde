//! The fields of structs, by name or in order.
pub(crate) mod eight;
pub(crate) mod sixteen;
mod wide;

ghost use Rattle.std.specs.Prelude.{◌≡◌, ◌≢◌, ◌⊎◌, ◌<◌, ◌≤◌, ◌||◌, ℕ, Bool, List, Option, None, Some, true};
ghost use Rattle.std.specs.Prelude.{false, length, IfErr, IfOk, IfSome, IfNone, OnSome, MatchOption, max, ◌^◌};
ghost use Rattle.std.specs.Borrow.{sem, RestsIfErr};
ghost use Rattle.rmp_wire.specs.Msg.{Msg, Msgs};
ghost use Rattle.rmp_decode.specs.contracts.deserializer.Deserializer.{the_row};
ghost use Rattle.rmp_decode.specs.Fields.{OfFields, Field, Absent, NoField, Slot, AreBlank, parts_name};
ghost use Rattle.rmp_decode.specs.Fields.{OpensFields, FailsToOpenFields, at, given_all, Fills, IsFull, pass_refusal};
ghost use Rattle.rmp_decode.specs.FieldRefusing.{PartsHold, FillRefused, RefusesFields, PassesSome, missing_place};
ghost use Rattle.rmp_decode.specs.FieldRows.{TakesRow, FailsRow};
ghost use Rattle.rmp_decode.specs.Law.{Lawful};
ghost use Rattle.rmp_decode.specs.Maps.{IsMapOpen, AtValue, pairs_left, map_lender, map_reference, map_inner};
ghost use Rattle.rmp_decode.specs.Names.{bytes_of};
ghost use Rattle.rmp_decode.specs.Parts.{FailsPart};
ghost use Rattle.rmp_decode.specs.Refusing.{Setting, Part, ReadsAs, RefusesAs, RefusesParts, RefusesTuple, PartsRefused, setting_of, no_refusal};
ghost use Rattle.rmp_decode.specs.Seq.{IsOpen, OfRow, TakesParts, FailsParts, reference_of};
ghost use Rattle.rmp_decode.specs.State.{left, faults_of, kept_of, is_failed};
ghost use Rattle.rmp_decode.specs.declared.deserializer.Kept.TheVariants.{Nothing};

use crate::access::map::MapAccess;
use crate::access::parts::{inner_room, levels_outside};
use crate::access::seq::SeqAccess;
use crate::de::Deserialize;
use crate::deserializer::Deserializer;
use crate::deserializer::peek::ListOf;
use crate::error::Error;
use crate::text::Text;
use rmp_wire::config::SerializerConfig;
use rmp_wire::{ReadSlice, Source};

/// The fields of a struct in the order of their names: a pair of the first one's value and the others, a tuple of the first four and the others,
/// or `()` for none.
pub trait Fields<'de, R: ReadSlice<'de>>: Sized + Drop {
    /// What was read so far.
    type Slots: Drop;

    // How many there are.
    ghost count: { ℕ };

    // Which trees, each at the place of its name or missing, are read as which values.
    ghost reads: { Bool → Bool → List (Option Msg) → Self → Type 0 };

    // What was read so far, of these trees.
    ghost holds: { Bool → Bool → List (Option Msg) → Self.Slots → Type 0 };

    // Which trees the field at a place is read from.
    ghost takes: { Bool → Bool → ℕ → Msg → Type 0 };

    // A tree of fields that are read is one of those.
    ghost taken: { (human lends : Bool) (fs : List (Option Msg)) (v : Self) (n : ℕ) (m : Msg) → reads human lends fs v → at n fs ≡ Some m
        → takes human lends n m };

    // What each field wants, in order.
    ghost parts: { List Part };

    // Whether each of them, in order, has no default, so that it may not be missing.
    ghost needed: { List Bool };

    // Whether reading them may return `OutOfMemory`, by whether the source lends its bytes.
    ghost takes_memory: { Bool → Bool };

    ghost many: { length parts ≡ count };

    // The trees of what was read so far, and of what is read, are such.
    ghost held: { (s : Setting) (fs : List (Option Msg)) (t : Self.Slots) → holds s.human s.lends fs t → PartsHold s parts fs };

    ghost given: { (s : Setting) (fs : List (Option Msg)) (v : Self) → reads s.human s.lends fs v → PartsHold s parts fs };

    // Fields that are read are as many.
    ghost counted: { (human lends : Bool) (fs : List (Option Msg)) (v : Self) → reads human lends fs v → length fs ≡ count };

    // If each field was read, they are the value.
    ghost full: { (human lends : Bool) (ms : Msgs) (t : Self.Slots) → holds human lends (given_all ms) t
        → (v : Self) × reads human lends (given_all ms) v };

    /// Returns the state in which nothing was read.
    fn empty() -> Self::Slots
        ensures { (human lends : Bool) (fs : List (Option Msg)) → AreBlank count fs → holds human lends fs result };

    /// Reads the value of the last key as the field at the place, and returns whether it succeeded. Otherwise the error
    /// is put into `refusal`. If the field was already read, that is `Syntax("duplicate field")`, and nothing is
    /// consumed.
    fn fill<'x, C: SerializerConfig>(
        slots: &mut Self::Slots,
        refusal: &mut Option<Error>,
        place: usize,
        map: &mut MapAccess<'x, R, C>,
    ) -> bool
        requires at_value { AtValue map.old }
        requires still { IsMapOpen map.old }
        ensures same_reference { map_reference map.new ≡ map_reference map.old }
        ensures ok { result ≡ true
            → Fills R.Source (holds C.human R.lends) place map.old map.new slots.old slots.new }
        ensures some { result ≡ false → refusal.new ≢ None }
        ensures err { result ≡ false → IfSome refusal.new (λ e. FailsPart R.Source
            (λ m (u : Unit {0}). takes C.human R.lends place m) (map_inner map.old) (map_lender map.old)
            (map_lender map.new) e
            ⊎ IsFull (holds C.human R.lends) place map.old map.new slots.old) }
        ensures refused { result ≡ false → IfSome refusal.new (FillRefused R.Source C.human R.lends
            (holds C.human R.lends) parts place map.old map.new slots.old) }
        ensures memory { takes_memory R.lends ≡ false → result ≡ false → IfSome refusal.new (λ e. e ≢ Error.OutOfMemory) };

    /// Returns the values. Returns `None` if a field is missing and has no default, and puts the place of the first one into `missing`.
    fn finish(slots: Self::Slots, missing: &mut usize) -> Option<Self>
        ensures all { (human lends : Bool) (fs : List (Option Msg)) → holds human lends fs slots
            → MatchOption result ((v : Self) → reads human lends fs v → ⊥) (reads human lends fs) }
        ensures first { count ≤ 2 ^ 64 → (human lends : Bool) (fs : List (Option Msg)) → holds human lends fs slots
            → IfNone result (missing_place needed fs ≡ Some missing.new) }
        ensures within { count ≤ 2 ^ 64 → IfNone result (missing.new < count) }
        ensures kept { OnSome result (missing.new ≡ missing.old) };

    /// Reads as many messages as there are fields, in order, each into the place of its field, and returns whether it
    /// succeeded. Otherwise the error is put into `refusal`, so that no read has room for an error in its result.
    fn row<C: SerializerConfig>(
        slots: &mut Self::Slots,
        refusal: &mut Option<Error>,
        de: &mut Deserializer<R, C>,
    ) -> bool
        requires ready { is_failed de.old ≡ false }
        requires clean { kept_of de.old ≡ Nothing }
        ensures ok { result ≡ true → TakesRow R.Source (λ ms. holds C.human R.lends (given_all ms) slots.new) count de.old de.new }
        ensures some { result ≡ false → refusal.new ≢ None }
        ensures err { result ≡ false → IfSome refusal.new
            (FailsRow R.Source (λ ms. (v : Self) × reads C.human R.lends (given_all ms) v) count de.old de.new) }
        ensures refused { result ≡ false → IfSome refusal.new
            (RefusesParts false (setting_of C.human R.lends de.old) (faults_of R.Source de.old) (faults_of R.Source de.new)
            parts no_refusal count (left R.Source de.old)) }
        ensures memory { takes_memory R.lends ≡ false → result ≡ false → IfSome refusal.new (λ e. e ≢ Error.OutOfMemory) };

    /// Reads the elements of a list as the fields.
    ///
    /// # Errors
    /// `Syntax("invalid length")` if there are fewer elements.
    fn listed<'x, C: SerializerConfig>(seq: &mut SeqAccess<'x, R, C>) -> Result<Self, Error>
        requires { IsOpen seq.old }
        ensures same_reference { reference_of seq.new ≡ reference_of seq.old }
        ensures ok { IfOk result (TakesParts R.Source (λ v ms. reads C.human R.lends (given_all ms) v) seq.old seq.new) }
        ensures err { IfErr result (FailsParts {V = Self} R.Source (λ v ms. reads C.human R.lends (given_all ms) v)
            seq.old seq.new) }
        ensures refused { IfErr result (PartsRefused R.Source C.human R.lends parts seq.old seq.new) }
        ensures memory { takes_memory R.lends ≡ false → IfErr result (λ e. e ≢ Error.OutOfMemory) };
}

impl<'de, R: ReadSlice<'de>> Fields<'de, R> for () {
    ghost use Rattle.std.specs.Prelude.{[]};
    ghost use Rattle.std.proofs.Common.{refl};
    ghost use Rattle.rmp_decode.specs.FieldRefusing.{no_field_held};
    ghost use Rattle.rmp_decode.specs.Fields.{no_field_taken, no_field_counted};

    type Slots = ();

    ghost count = { 0 };

    ghost reads = { λ human lends fs v. NoField fs };

    ghost holds = { λ human lends fs s. NoField fs };

    ghost takes = { λ human lends n m. ⊥ };

    ghost taken = { λ human lends fs v n m. no_field_taken fs n m };

    ghost parts = { [] };

    ghost needed = { [] };

    ghost takes_memory = { λ _. false };

    ghost many = { refl };

    ghost held = { λ s fs t. no_field_held s fs };

    ghost given = { λ s fs v. no_field_held s fs };

    ghost counted = { λ human lends fs v. no_field_counted fs };

    ghost full = { λ human lends ms t h. (tt, h) };

    fn empty() {}

    #[inline(always)]
    fn fill<'x, C: SerializerConfig>(
        _slots: &mut (),
        refusal: &mut Option<Error>,
        _place: usize,
        _map: &mut MapAccess<'x, R, C>,
    ) -> bool {
        *refusal = Some(Error::Syntax(Text::DuplicateField));
        false
    }

    #[inline(always)]
    fn finish(_slots: (), _missing: &mut usize) -> Option<()> {
        Some(())
    }

    #[inline(always)]
    fn row<C: SerializerConfig>(
        _slots: &mut (),
        _refusal: &mut Option<Error>,
        _de: &mut Deserializer<R, C>,
    ) -> bool {
        true
    }

    #[inline(always)]
    fn listed<'x, C: SerializerConfig>(_seq: &mut SeqAccess<'x, R, C>) -> Result<(), Error> {
        Ok(())
    }
}

impl<'de, R: ReadSlice<'de>, A: Deserialize<'de, R>, B: Fields<'de, R>> Fields<'de, R> for (A, B) {
    ghost use Rattle.std.specs.Prelude.{suc};
    ghost use Rattle.std.specs.Prelude.{◌∷◌};
    ghost use Rattle.std.proofs.Common.{ap};
    ghost use Rattle.rmp_decode.specs.FieldRefusing.{slot_held, field_held};
    ghost use Rattle.rmp_decode.specs.Fields.{FieldTakes, field_taken, field_counted, slot_full};
    ghost use Rattle.rmp_decode.specs.Refusing.{part_of};
    ghost use Rattle.std.specs.Option.{is_none};

    type Slots = (Option<A>, B::Slots);

    ghost count = { suc B.count };

    ghost reads = { λ human lends fs v. Field (λ m. A.reads human lends m v.0) (Absent A.absent v.0) (λ gs. B.reads human lends gs v.1) fs };

    ghost holds = { λ human lends fs s. Slot (A.reads human lends) (B.holds human lends) fs s.0 s.1 };

    ghost takes = { λ human lends. FieldTakes (A.reads human lends) (B.takes human lends) };

    ghost taken = { λ human lends fs v. field_taken (A.reads human lends) (A.absent) (B.reads human lends) (B.takes human lends) (B.taken human lends) fs
        v.0 v.1 };

    ghost parts = { part_of A.reads A.refuses ∷ B.parts };

    ghost needed = { is_none A.absent ∷ B.needed };

    ghost takes_memory = { λ lends. A.takes_memory lends || B.takes_memory lends };

    ghost many = { ap suc B.many };

    ghost held = { λ s fs t. slot_held A.reads A.refuses B.holds B.parts B.held s fs t.0 t.1 };

    ghost given = { λ s fs v. field_held A.reads A.refuses B.reads B.parts B.given A.absent s fs v.0 v.1 };

    ghost counted = { λ human lends fs v. field_counted (λ m. A.reads human lends m v.0) (Absent A.absent v.0) (λ gs. B.reads human lends gs v.1)
        (λ gs. B.counted human lends gs v.1) fs };

    ghost full = { λ human lends ms t. slot_full (A.reads human lends) A.absent (B.reads human lends) (B.holds human lends) (B.full human lends) ms t.0 t.1 };

    fn empty() -> (Option<A>, B::Slots) {
        (None, B::empty())
    }

    #[inline(always)]
    fn fill<'x, C: SerializerConfig>(
        slots: &mut (Option<A>, B::Slots),
        refusal: &mut Option<Error>,
        place: usize,
        map: &mut MapAccess<'x, R, C>,
    ) -> bool {
        if place > 0 {
            return B::fill(&mut slots.1, refusal, place - 1, map);
        }
        if slots.0.is_some() {
            *refusal = Some(Error::Syntax(Text::DuplicateField));
            return false;
        }
        match map.next_value() {
            Ok(value) => {
                slots.0 = Some(value);
                true
            }
            Err(why) => {
                *refusal = Some(why);
                false
            }
        }
    }

    #[inline(always)]
    fn finish(slots: (Option<A>, B::Slots), missing: &mut usize) -> Option<(A, B)> {
        let (first, others) = slots;
        let first = match first {
            Some(first) => first,
            None => match A::missing() {
                Some(first) => first,
                None => {
                    *missing = 0;
                    return None;
                }
            },
        };
        match B::finish(others, missing) {
            Some(others) => Some((first, others)),
            None => {
                *missing = missing.saturating_add(1);
                None
            }
        }
    }

    #[inline(always)]
    fn row<C: SerializerConfig>(
        slots: &mut (Option<A>, B::Slots),
        refusal: &mut Option<Error>,
        de: &mut Deserializer<R, C>,
    ) -> bool {
        match A::deserialize(de) {
            Ok(first) => {
                slots.0 = Some(first);
                B::row(&mut slots.1, refusal, de)
            }
            Err(e) => {
                *refusal = Some(e);
                false
            }
        }
    }

    #[inline(always)]
    fn listed<'x, C: SerializerConfig>(seq: &mut SeqAccess<'x, R, C>) -> Result<(A, B), Error> {
        let first = match seq.element() {
            Ok(first) => first,
            Err(e) => return Err(e),
        };
        match B::listed(seq) {
            Ok(others) => Ok((first, others)),
            Err(e) => Err(e),
        }
    }
}

// A message that is skipped.
#[derive(Clone, Copy)]
pub(crate) struct Passed;

impl<'de, R: ReadSlice<'de>> Deserialize<'de, R> for Passed {
    ghost reads = { λ human lends m v. Unit {0} };

    ghost absent = { None };

    ghost refuses = { pass_refusal };

    #[inline(always)]
    fn deserialize<C: SerializerConfig>(de: &mut Deserializer<R, C>) -> Result<Passed, Error> {
        match de.deserialize_ignored_any() {
            Ok(()) => Ok(Passed),
            Err(e) => Err(e),
        }
    }

    fn missing() -> Option<Passed> {
        None
    }
}

// The parts that fields are read from.
#[derive(Drop)]
enum FieldParts<'x, R, C> {
    Seq(SeqAccess<'x, R, C>),
    Map(MapAccess<'x, R, C>),
}

// Why something was refused.
#[inline(always)]
fn refusal_in(refusal: Option<Error>) -> Error
    requires { refusal ≢ None }
    ensures { refusal ≡ Some result }
{
    match refusal {
        Some(e) => e,
        None => unreachable!(),
    }
}

impl<R: Source, C: SerializerConfig> Deserializer<R, C> {
    ghost use Rattle.rmp_decode.specs.FieldReads.{ReadsFields, ReadsAhead, ReadsNamePart, ReadsPlacePart};

    // Reads a key, and returns which of the names it is. The reader counts as failed until the access ends.
    #[inline(always)]
    pub(crate) fn name_part<'de>(
        &mut self,
        inner: u32,
        names: &[&str],
    ) -> Result<Option<usize>, Error>
    where
        R: ReadSlice<'de>,
        ensures { ReadsNamePart R.Source C.human R.lends (bytes_of names.now) (max 1 inner) self.old self.new result }
    {
        let outer = self.room;
        self.room = inner;
        self.failed = false;
        match self.deserialize_identifier(names) {
            Ok(v) => {
                self.room = outer;
                self.failed = true;
                Ok(v)
            }
            Err(e) => {
                self.room = outer;
                self.levels = levels_outside(self.levels, outer, inner);
                Err(e)
            }
        }
    }

    // Reads a key, and returns the place of its name, or the number of names if it is none of them. An error is put
    // into `refusal`. Out of line.
    #[inline(never)]
    fn place_part<'de>(
        &mut self,
        inner: u32,
        names: &[&str],
        refusal: &mut Option<Error>,
    ) -> Option<usize>
    where
        R: ReadSlice<'de>,
        ensures { ReadsPlacePart R.Source C.human R.lends (bytes_of names.now) (max 1 inner) self.old self.new refusal.new result }
    {
        match self.name_part(inner, names) {
            Ok(Some(place)) => Some(place),
            Ok(None) => Some(names.len()),
            Err(why) => {
                *refusal = Some(why);
                None
            }
        }
    }

    // Opens a list, bytes as the list of their numbers, or a map.
    #[inline(always)]
    fn open_fields(&mut self) -> Result<FieldParts<'_, R, C>, Error>
        ensures* refused { sem 𝓛 (RestsIfErr (the_row R.row C.row) self.entry parts_name result
            (λ last. IfErr result (FailsToOpenFields R.Source self.old last))) }
        ensures same_reference { IfOk result (λ a. parts_name a ≡ self.entry.ghost_name) }
        ensures opened { IfOk result (OpensFields R.Source self.old) }
    {
        let room = self.room;
        match self.open_struct() {
            Ok((Some(bytes), left)) => Ok(FieldParts::Seq(SeqAccess {
                de: self,
                left,
                count: left,
                inner: inner_room(room, bytes),
                bytes,
                sound: true,
            })),
            Ok((None, left)) => Ok(FieldParts::Map(MapAccess {
                de: self,
                left,
                count: left,
                inner: inner_room(room, false),
                owes: false,
                sound: true,
            })),
            Err(e) => Err(e),
        }
    }

    // Reads the elements of a list whose head was consumed, as many as there are fields.
    #[inline(always)]
    fn row_ahead<'de, F: Fields<'de, R>>(&mut self) -> Result<F, Error>
    where
        R: ReadSlice<'de>,
        requires clean { kept_of self.old ≡ Nothing }
        ensures { ReadsAhead R.Source C.human R.lends F.Fields self.old self.new result }
    {
        let outer = self.room;
        self.room = inner_room(outer, false);
        self.failed = false;
        let mut slots = F::empty();
        let mut refusal = None;
        if F::row(&mut slots, &mut refusal, self) {
            self.room = outer;
            let mut missing = 0;
            match F::finish(slots, &mut missing) {
                Some(values) => Ok(values),
                None => unreachable!(),
            }
        } else {
            self.room = outer;
            self.levels = self.levels.saturating_add(1);
            match refusal {
                Some(e) => Err(e),
                None => unreachable!(),
            }
        }
    }

    /// Reads a tuple, or the fields of a tuple struct, from a list of as many elements, or from bytes as the list of their numbers.
    ///
    /// # Errors
    /// Those of the elements' types; `Syntax("invalid type")` for another kind; `DepthLimitExceeded` for a list that
    /// nests too deep; and `Syntax("invalid length")` and `LengthMismatch` for a list of fewer or more elements.
    #[inline(always)]
    pub fn tuple_parts<'de, F: Fields<'de, R>>(&mut self, count: usize) -> Result<F, Error>
    where
        R: ReadSlice<'de>,
        requires count { count ≡ F.count }
        ensures law { Lawful R.Source (λ m v. OfRow (λ ms. F.reads C.human R.lends (given_all ms) v) m) self.old self.new result }
        ensures refused { RefusesAs R.Source C.human R.lends (RefusesTuple F.parts) self.old self.new result }
        ensures memory { F.takes_memory R.lends ≡ false → IfErr result (λ e. e ≢ Error.OutOfMemory) }
    {
        match self.take_nested(ListOf { count }) {
            Some(()) => self.row_ahead(),
            None => match self.opened_tuple(count) {
                Ok(values) => Ok(values),
                Err(e) => Err(e),
            },
        }
    }

    // Reads a tuple, and counts its elements as they are read. It is seldom called, and too large to be inlined beside
    // the fast path. The caller takes the result apart, so that its own result stays in registers.
    fn opened_tuple<'de, F: Fields<'de, R>>(&mut self, count: usize) -> Result<F, Error>
    where
        R: ReadSlice<'de>,
        ensures { ReadsAs R.Source C.human R.lends (F.takes_memory R.lends) (λ m v. OfRow (λ ms. F.reads C.human R.lends (given_all ms) v) m)
            (RefusesTuple F.parts) self.old self.new result }
    {
        let mut seq = match self.deserialize_tuple(count) {
            Ok(seq) => seq,
            Err(e) => return Err(e),
        };
        let values = match F::listed(&mut seq) {
            Ok(values) => values,
            Err(e) => return Err(e),
        };
        match seq.end() {
            Ok(()) => Ok(values),
            Err(e) => Err(e),
        }
    }

    /// Reads the fields of a struct from a list, from bytes as the list of their numbers, or from a map by the names.
    /// In a map they may have any order, and unknown names are skipped. A field that is missing has the value that its
    /// type has for it.
    ///
    /// # Errors
    /// Those of the fields' types; `Syntax("invalid type")` for another kind, and for a key that is no text, bytes or
    /// number from 0 on; `DepthLimitExceeded` for a list or a map that nests too deep; `Syntax("invalid length")` and
    /// `LengthMismatch` for a list of fewer or more elements; `Syntax("duplicate field")` for a second field of one
    /// name; and `Syntax("missing field")`, with the name of the first such field, for one that is missing and has no
    /// value for that.
    #[inline(always)]
    pub fn deserialize_fields<'de, F: Fields<'de, R>>(&mut self, names: &[&str]) -> Result<F, Error>
    where
        R: ReadSlice<'de>,
        requires count { length names.now ≡ F.count }
        ensures law { Lawful R.Source (λ m v. OfFields (bytes_of names.now) (λ fs. F.reads C.human R.lends fs v) m) self.old self.new
            result }
        ensures refused { RefusesAs R.Source C.human R.lends (RefusesFields (bytes_of names.now) F.needed F.parts) self.old self.new
            result }
        // If the source lends its bytes, and no field's read allocates, memory can run out only at a skipped list or
        // map that isn't empty.
        ensures memory { R.lends ≡ true → F.takes_memory R.lends ≡ false → IfErr result (λ e. e ≡ Error.OutOfMemory
            → PassesSome (bytes_of names.now) (setting_of C.human R.lends self.old) (left R.Source self.old) e) }
    {
        match self.take_nested(ListOf { count: names.len() }) {
            Some(()) => self.row_ahead(),
            None => match self.opened_fields(names) {
                Ok(values) => Ok(values),
                Err(e) => Err(e),
            },
        }
    }

    // Reads fields from elements or pairs that are counted as they are read.
    #[inline(always)]
    fn opened_fields<'de, F: Fields<'de, R>>(&mut self, names: &[&str]) -> Result<F, Error>
    where
        R: ReadSlice<'de>,
        requires count { length names.now ≡ F.count }
        ensures { ReadsFields R.Source C.human R.lends F.Fields (bytes_of names.now) self.old self.new result }
    {
        match self.open_fields() {
            Ok(FieldParts::Seq(mut seq)) => {
                let values = match F::listed(&mut seq) {
                    Ok(values) => values,
                    Err(e) => return Err(e),
                };
                match seq.end() {
                    Ok(()) => Ok(values),
                    Err(e) => Err(e),
                }
            }
            Ok(FieldParts::Map(mut map)) => {
                let mut slots = F::empty();
                let mut refusal = None;
                while map.left > 0 {
                    let place = match map.next_place(names, &mut refusal) {
                        Some(place) => place,
                        None => return Err(refusal_in(refusal)),
                    };
                    if place >= names.len() {
                        match map.next_value::<Passed>() {
                            Ok(_) => continue,
                            Err(e) => return Err(e),
                        }
                    }
                    if !F::fill(&mut slots, &mut refusal, place, &mut map) {
                        return Err(refusal_in(refusal));
                    }
                }
                let mut missing = 0;
                let values = match F::finish(slots, &mut missing) {
                    Some(values) => values,
                    None => return Err(Error::missing_field(names[missing])),
                };
                match map.end() {
                    Ok(()) => Ok(values),
                    Err(e) => Err(e),
                }
            }
            Err(e) => Err(e),
        }
    }
}

impl<'x, R: Source, C: SerializerConfig> MapAccess<'x, R, C> {
    ghost use Rattle.rmp_decode.specs.FieldReads.{NextPlace};

    // Reads the next key, and returns the place of its name, or the number of names if it is none of them. An error is
    // put into `refusal`, so that no read has room for an error in its result.
    #[inline(always)]
    fn next_place<'de>(&mut self, names: &[&str], refusal: &mut Option<Error>) -> Option<usize>
    where
        R: ReadSlice<'de>,
        requires still { IsMapOpen self.old }
        requires more { 0 < pairs_left self.old }
        ensures { NextPlace R.Source C.human R.lends (bytes_of names.now) self.old self.new refusal.new result }
    {
        match self.de.take_name(names, false) {
            Some(place) => {
                self.left -= 1;
                self.owes = true;
                Some(place)
            }
            None => match self.de.place_part(self.inner, names, refusal) {
                Some(place) => {
                    self.left -= 1;
                    self.owes = true;
                    Some(place)
                }
                None => None,
            },
        }
    }
}
