//! What accesses share: one part of a list or a map, read with the depth that is left for parts, and the end.
ghost use Rattle.std.specs.Prelude.{◌≡◌, ◌<◌, ◌-◌, IfErr, MatchResult, OnOk, false, true, max};
ghost use Rattle.std.specs.Fn.{FnOnceTakesAtMut};
ghost use Rattle.rmp_decode.specs.Law.{IsFailedBefore};
ghost use Rattle.rmp_decode.specs.MapRefusing.{ReadsPart};
ghost use Rattle.rmp_decode.specs.State.{levels_outside};
ghost use Rattle.rmp_decode.specs.With.{part_reader, PartGiven};

use crate::de::Deserialize;
use crate::deserializer::Deserializer;
use crate::error::Error;
use crate::text::Text;
use rmp_wire::config::SerializerConfig;
use rmp_wire::{ReadSlice, Source};

// How deep the parts of a list or a map may nest. Bytes are no level of nesting.
#[inline(always)]
pub(crate) fn inner_room(room: u32, bytes: bool) -> u32
    ensures bytes { bytes ≡ true → result ≡ room }
    ensures list { bytes ≡ false → result ≡ room - 1 }
{
    if bytes { room } else { room.saturating_sub(1) }
}

// Adds the levels between the room outside of a part that was refused and the room in it.
#[inline(always)]
pub(crate) fn levels_outside(levels: u32, outer: u32, inner: u32) -> u32
    ensures { result ≡ levels_outside levels outer inner }
{
    levels.saturating_add(outer.saturating_sub(inner))
}

impl<R: Source, C: SerializerConfig> Deserializer<R, C> {
    // Reads a part that may nest as deep as `inner`. The reader counts as failed until the access to the parts ends.
    #[inline(always)]
    pub(crate) fn part<'de, T: Deserialize<'de, R>>(&mut self, inner: u32) -> Result<T, Error>
    where
        R: ReadSlice<'de>,
        ensures { ReadsPart R.Source C.human R.lends T.reads T.refuses (T.takes_memory R.lends ≡ false) (max 1 inner) self.old self.new result }
    {
        let outer = self.room;
        self.room = inner;
        self.failed = false;
        // (each result is returned from its own arm, so that a value has no room for an error beside it)
        match T::deserialize(self) {
            Ok(v) => {
                self.room = outer;
                self.failed = true;
                Ok(v)
            }
            Err(e) => {
                self.room = outer;
                self.levels = levels_outside(self.levels, outer, inner);
                Err(e)
            }
        }
    }

    // Reads a part by `f`, which may nest as deep as `inner`.
    #[inline(always)]
    pub(crate) fn part_with<X: Drop, F>(&mut self, inner: u32, f: F) -> Result<X, Error>
    where
        F: FnOnce(&mut Deserializer<R, C>) -> Result<X, Error>,
        requires { FnOnceTakesAtMut F.FnOnce f (part_reader self.old inner) }
        ensures { PartGiven F.FnOnce f inner self.old self.new result }
    {
        let outer = self.room;
        let limit = self.limit;
        self.room = inner;
        self.failed = false;
        let given = f(self);
        let failed = self.failed;
        self.room = outer;
        self.limit = limit;
        self.failed = true;
        let part = match given {
            Ok(part) => part,
            Err(e) => {
                self.levels = levels_outside(self.levels, outer, inner);
                return Err(e);
            }
        };
        if failed {
            self.levels = levels_outside(self.levels, outer, inner);
            return Err(Error::Uncategorized(Text::FailedBefore));
        }
        Ok(part)
    }

    // Ends a list or a map of `count` parts of which `left` remain. The reader is ready again if that is none.
    #[inline(always)]
    pub(crate) fn end_parts(&mut self, left: u32, count: u32, sound: bool) -> Result<(), Error>
        ensures ok { sound ≡ true → OnOk result ((left ≡ 0) × (self.new ≡ record self.old { failed = false })) }
        ensures err { sound ≡ true → IfErr result (λ e. (0 < left) × (self.new ≡ self.old) × (e ≡ Error.LengthMismatch (count - left))) }
        ensures before { sound ≡ false → MatchResult result (λ _. ⊥) IsFailedBefore × (self.new ≡ self.old) }
    {
        if !sound {
            return Err(Error::Uncategorized(Text::FailedBefore));
        }
        if left > 0 {
            return Err(Error::LengthMismatch(count.saturating_sub(left)));
        }
        self.failed = false;
        Ok(())
    }
}
