//! What was written of some of the types is read as the value that was written, with the same settings, and is all that is consumed.
ghost use Rattle.std.specs.Prelude.{◌≡◌, ◌<◌, ◌++◌, ℕ, List, true};
ghost use Rattle.rmp_decode.specs.Law.{Begins};
ghost use Rattle.rmp_encode.specs.Calls.{IsSpelled};
ghost use Rattle.rmp_encode.specs.Trees.{tree_of};
ghost use Rattle.rmp_encode.specs.declared.settings.Settings.{Settings};
ghost use Rattle.rmp_round_trip.specs.RoundTrip.{LowersTo};
ghost use Rattle.rmp_wire.specs.Msg.{depth};
ghost use Rattle.rmp_wire.specs.Spelling.{Spells};

use crate::kinds::{Kennel, Sorted};
use rmp_decode::Deserialize;
use rmp_encode::Serialize;
use rmp_round_trip::laws::written_is_read;
use rmp_round_trip::{ContentOrd, RoundTrip};
use rmp_wire::ReadSlice;

/// A kennel that was written is read.
pub fn kennels_come_back<'de, R: ReadSlice<'de>>()
    ensures { (s : Settings) (v : _) (b x : List ℕ) (room : ℕ) → ⟦<Kennel as Serialize>⟧.is_value v
        → IsSpelled (tree_of s (⟦<Kennel as Serialize>⟧.data_of v s.human)) b
        → LowersTo s (⟦<Kennel as Serialize>⟧.data_of v s.human) (λ m. depth m < room)
        → Begins Spells (λ m. ⟦<Kennel as Deserialize<'de, R>>⟧.reads s.human R.lends m v) room (b ++ x) }
{
    written_is_read::<R, Kennel>();
}

/// So are maps and sets, where the keys are, and from bytes that are lent where the keys borrow.
pub fn sorted_come_back<'de, R: ReadSlice<'de>, K: ContentOrd<'de, R>>()
    ensures { (K.borrows ≡ true → R.lends ≡ true) → (s : Settings) (v : _) (b x : List ℕ) (room : ℕ) → ⟦<Sorted<K> as Serialize>⟧.is_value v
        → IsSpelled (tree_of s (⟦<Sorted<K> as Serialize>⟧.data_of v s.human)) b
        → LowersTo s (⟦<Sorted<K> as Serialize>⟧.data_of v s.human) (λ m. depth m < room)
        → Begins Spells (λ m. ⟦<Sorted<K> as Deserialize<'de, R>>⟧.reads s.human R.lends m v) room (b ++ x) }
{
    written_is_read::<R, Sorted<K>>();
}
