//! Maps, key by key and value by value.
ghost use Rattle.std.specs.Prelude.{◌≡◌, ◌≢◌, ◌-◌, ◌<◌, true, false, IfSome, IfNone, IfOk, IfErr, OnOk, OnErr, MatchResult, Ok, None};
ghost use Rattle.rmp_decode.specs.Law.{IsFailedBefore};
ghost use Rattle.rmp_decode.specs.MapRefusing.{EntryRefused, KeyRefused};
ghost use Rattle.rmp_decode.specs.Maps.{IsMapOpen, AtKey, AtValue, TakesKey, TakesValue, pairs_left, pairs_in, owes_value, is_map_sound, map_lender, map_reference};
ghost use Rattle.rmp_decode.specs.Maps.{map_inner};
ghost use Rattle.rmp_decode.specs.Parts.{FailsPart};
ghost use Rattle.std.specs.Fn.{FnOnceTakesAtMut};
ghost use Rattle.rmp_decode.specs.With.{part_reader, part_room, KeyRead, ValueRead};

use crate::de::Deserialize;
use crate::deserializer::Deserializer;
use crate::error::Error;
use crate::text::Text;
use rmp_wire::config::SerializerConfig;
use rmp_wire::{ReadSlice, Source};

/// The pairs of a map that is being read: of each, its key, and then its value.
///
/// The reader counts as failed until `end` returns `Ok`; an access that is dropped earlier leaves it failed.
#[derive(Drop)]
pub struct MapAccess<'x, R, C> {
    pub(crate) de: &'x mut Deserializer<R, C>,
    pub(crate) left: u32,
    pub(crate) count: u32,
    pub(crate) inner: u32,
    pub(crate) owes: bool,
    pub(crate) sound: bool,
}

impl<'x, R: Source, C: SerializerConfig> MapAccess<'x, R, C> {
    /// Returns how many pairs haven't begun.
    pub fn left(&self) -> u32
        ensures { result ≡ pairs_left self.now }
    {
        self.left
    }

    /// Returns whether a key was read whose value hasn't been read.
    pub fn owes_value(&self) -> bool
        ensures { result ≡ owes_value self.now }
    {
        self.owes
    }

    /// Reads the next key, if there is one.
    ///
    /// The value of the previous key has to be read first.
    #[inline(always)]
    pub fn next_key<'de, K: Deserialize<'de, R>>(&mut self) -> Result<Option<K>, Error>
    where
        R: ReadSlice<'de>,
        requires { AtKey self.old }
        ensures same_reference { map_reference self.new ≡ map_reference self.old }
        ensures none { IfOk result (λ o. IfNone o ((pairs_left self.old ≡ 0) × (self.new ≡ self.old))) }
        ensures some { IfOk result (λ o. IfSome o (TakesKey R.Source (K.reads C.human R.lends) self.old self.new)) }
        ensures err { is_map_sound self.old ≡ true → IfErr result
            (λ e. (0 < pairs_left self.old) × FailsPart R.Source (K.reads C.human R.lends) (map_inner self.old)
            (map_lender self.old) (map_lender self.new) e) }
        ensures refused { is_map_sound self.old ≡ true → IfErr result
            (KeyRefused R.Source C.human R.lends K.refuses self.old self.new) }
        ensures memory { K.takes_memory R.lends ≡ false → IfErr result (λ e. e ≢ Error.OutOfMemory) }
        ensures failed { OnErr result (is_map_sound self.new ≡ false) }
        ensures before { is_map_sound self.old ≡ false → MatchResult result (λ _. ⊥) IsFailedBefore × (self.new ≡ self.old) }
    {
        if !self.sound {
            return Err(Error::Uncategorized(Text::FailedBefore));
        }
        if self.left == 0 {
            return Ok(None);
        }
        self.sound = false;
        match self.de.part(self.inner) {
            Ok(key) => {
                self.left -= 1;
                self.owes = true;
                self.sound = true;
                Ok(Some(key))
            }
            Err(e) => Err(e),
        }
    }

    /// Reads the value of the last key.
    #[inline(always)]
    pub fn next_value<'de, V: Deserialize<'de, R>>(&mut self) -> Result<V, Error>
    where
        R: ReadSlice<'de>,
        requires { AtValue self.old }
        ensures same_reference { map_reference self.new ≡ map_reference self.old }
        ensures ok { IfOk result (TakesValue R.Source (V.reads C.human R.lends) self.old self.new) }
        ensures err { is_map_sound self.old ≡ true → IfErr result
            (FailsPart R.Source (V.reads C.human R.lends) (map_inner self.old) (map_lender self.old)
            (map_lender self.new)) }
        ensures refused { is_map_sound self.old ≡ true → IfErr result
            (EntryRefused R.Source C.human R.lends V.refuses self.old self.new) }
        ensures memory { V.takes_memory R.lends ≡ false → IfErr result (λ e. e ≢ Error.OutOfMemory) }
        ensures failed { OnErr result (is_map_sound self.new ≡ false) }
        ensures before { is_map_sound self.old ≡ false → MatchResult result (λ _. ⊥) IsFailedBefore × (self.new ≡ self.old) }
    {
        if !self.sound {
            return Err(Error::Uncategorized(Text::FailedBefore));
        }
        self.sound = false;
        match self.de.part(self.inner) {
            Ok(value) => {
                self.owes = false;
                self.sound = true;
                Ok(value)
            }
            Err(e) => Err(e),
        }
    }

    /// Reads the next key by `f`, if there is one. `f` gets the reader before the key. An `f` that returns `Ok` must
    /// have read the key and nothing else.
    ///
    /// The value of the previous key has to be read first.
    ///
    /// # Errors
    /// Those of `f`, and `Uncategorized("failed before")` if `f` returned `Ok` but left the reader failed.
    #[inline(never)]
    pub fn next_key_with<X: Drop, F>(&mut self, f: F) -> Result<Option<X>, Error>
    where
        F: FnOnce(&mut Deserializer<R, C>) -> Result<X, Error>,
        requires at_key { AtKey self.old }
        requires part { is_map_sound self.old ≡ true → 0 < pairs_left self.old
            → FnOnceTakesAtMut F.FnOnce f (part_reader (map_lender self.old) (part_room self.old)) }
        ensures same_reference { map_reference self.new ≡ map_reference self.old }
        ensures before { is_map_sound self.old ≡ false → MatchResult result (λ _. ⊥) IsFailedBefore × (self.new ≡ self.old) }
        ensures none { is_map_sound self.old ≡ true → pairs_left self.old ≡ 0 → (result ≡ Ok None) × (self.new ≡ self.old) }
        ensures part { is_map_sound self.old ≡ true → 0 < pairs_left self.old → KeyRead F.FnOnce f self.old self.new result }
        ensures still { OnOk result (is_map_sound self.new ≡ true) }
        ensures broken { OnErr result (is_map_sound self.new ≡ false) }
    {
        if !self.sound {
            return Err(Error::Uncategorized(Text::FailedBefore));
        }
        if self.left == 0 {
            return Ok(None);
        }
        self.sound = false;
        match self.de.part_with(self.inner, f) {
            Ok(key) => {
                self.left -= 1;
                self.owes = true;
                self.sound = true;
                Ok(Some(key))
            }
            Err(e) => Err(e),
        }
    }

    /// Reads the value of the last key by `f`, which gets the reader before the value. An `f` that returns `Ok` must
    /// have read the value and nothing else.
    ///
    /// # Errors
    /// Those of `next_key_with`.
    #[inline(never)]
    pub fn next_value_with<X: Drop, F>(&mut self, f: F) -> Result<X, Error>
    where
        F: FnOnce(&mut Deserializer<R, C>) -> Result<X, Error>,
        requires at_value { AtValue self.old }
        requires part { is_map_sound self.old ≡ true → FnOnceTakesAtMut F.FnOnce f (part_reader (map_lender self.old) (part_room self.old)) }
        ensures same_reference { map_reference self.new ≡ map_reference self.old }
        ensures before { is_map_sound self.old ≡ false → MatchResult result (λ _. ⊥) IsFailedBefore × (self.new ≡ self.old) }
        ensures part { is_map_sound self.old ≡ true → ValueRead F.FnOnce f self.old self.new result }
        ensures still { OnOk result (is_map_sound self.new ≡ true) }
        ensures broken { OnErr result (is_map_sound self.new ≡ false) }
    {
        if !self.sound {
            return Err(Error::Uncategorized(Text::FailedBefore));
        }
        self.sound = false;
        match self.de.part_with(self.inner, f) {
            Ok(part) => {
                self.owes = false;
                self.sound = true;
                Ok(part)
            }
            Err(e) => Err(e),
        }
    }

    /// Ends the map. The reader is ready again.
    ///
    /// The value of the last key has to be read first.
    ///
    /// # Errors
    /// `LengthMismatch` with the number of pairs that were read, if any remain. They aren't looked at.
    #[inline(always)]
    pub fn end(self) -> Result<(), Error>
        requires { AtKey self }
        ensures ok { IsMapOpen self.entry → OnOk result ((pairs_left self.entry ≡ 0) × (self.exit.0.now ≡ record (map_lender self.entry) { failed = false })) }
        ensures err { IsMapOpen self.entry → IfErr result (λ e. (0 < pairs_left self.entry) × (self.exit.0.now ≡ map_lender self.entry)
            × (e ≡ Error.LengthMismatch (pairs_in self.entry - pairs_left self.entry))) }
        ensures before { is_map_sound self.entry ≡ false → MatchResult result (λ _. ⊥) IsFailedBefore × (self.exit.0.now ≡ map_lender self.entry) }
    {
        let (left, count, sound) = (self.left, self.count, self.sound);
        self.de.end_parts(left, count, sound)
    }
}
