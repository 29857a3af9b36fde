//! The laws of types whose values are read as they were written. Each is the contract of a function that does nothing.
//!
//! A caller uses a law by calling its function: what the call ensures is the law, for every argument.

ghost use Rattle.std.specs.Prelude.{◌≡◌, ◌<◌, ℕ, true, List, ◌++◌, Bool, Option, Some, map};
ghost use Rattle.rmp_wire.specs.Canonical.{IsCanonical};
ghost use Rattle.rmp_wire.specs.Msg.{Msg, depth};
ghost use Rattle.rmp_wire.specs.Msg.{map as mapping};
ghost use Rattle.rmp_wire.specs.Spelling.{Spells};
ghost use Rattle.rmp_encode.specs.Calls.{IsSpelled};
ghost use Rattle.rmp_encode.specs.Data.{Data, Fields, lower_named};
ghost use Rattle.rmp_encode.specs.Trees.{fields_of, structure_of, tree_of};
ghost use Rattle.rmp_encode.specs.declared.settings.Settings.{Settings};
ghost use Rattle.rmp_decode.specs.Fields.{fields};
ghost use Rattle.rmp_decode.specs.Law.{Begins};
ghost use Rattle.rmp_decode.specs.Names.{distinct};
ghost use Rattle.rmp_round_trip.specs.Evolution.{IsRecord, found, tree_named};
ghost use Rattle.rmp_round_trip.specs.RoundTrip.{LowersTo, Only};
ghost use Rattle.rmp_round_trip.specs.StructRounds.{names_in};

use crate::round_trip::RoundTrip;
pub use crate::turns::{messages_in_turn, values_in_turn};
use rmp_decode::Deserialize;
use rmp_wire::ReadSlice;

/// What a tree is read as depends on the tree alone: a message in other widths, whatever follows it, is read alike.
pub fn widths_are_alike<'de, R: ReadSlice<'de>, T: Deserialize<'de, R>>()
    ensures { (human : Bool) (room : ℕ) (a b x y : List ℕ) (m : Msg) (v : T) → Spells a m → Spells b m
        → Begins Spells (λ k. T.reads human R.lends k v) room (a ++ x) → Begins Spells (λ k. T.reads human R.lends k v) room (b ++ y) }
{}

/// What a value of a type with `RoundTrip` lowers to, with any settings, is read as that value with the same settings; of a type that
/// borrows, where the source lends its bytes.
pub fn values_come_back<'de, R: ReadSlice<'de>, T: RoundTrip<'de, R>>()
    ensures read { (T.borrows ≡ true → R.lends ≡ true) → (s : Settings) (v : T) → T.is_value v
        → LowersTo s (T.data_of v s.human) (λ m. T.reads s.human R.lends m v) }
    // and as nothing else
    ensures only { (s : Settings) (v : T) → T.is_value v → LowersTo s (T.data_of v s.human) (λ m. Only (T.reads s.human R.lends) T.same m v) }
    // Values of the same content are written alike.
    ensures alike { (human : Bool) (v w : T) → T.same v w → T.data_of v human ≡ T.data_of w human }
{}

/// What a value is written as is read as that value, and as nothing else, with the same settings, whatever follows it, where it nests
/// below the limit. Nothing more is consumed: what follows is left, as the next value.
pub fn written_is_read<'de, R: ReadSlice<'de>, T: RoundTrip<'de, R>>()
    ensures read { (T.borrows ≡ true → R.lends ≡ true) → (s : Settings) (v : T) (b x : List ℕ) (room : ℕ) → T.is_value v
        → IsSpelled (tree_of s (T.data_of v s.human)) b → LowersTo s (T.data_of v s.human) (λ m. depth m < room)
        → Begins Spells (λ m. T.reads s.human R.lends m v) room (b ++ x) }
    // by a strict read too
    ensures strict { (T.borrows ≡ true → R.lends ≡ true) → (s : Settings) (v : T) (b x : List ℕ) (room : ℕ) → T.is_value v
        → IsSpelled (tree_of s (T.data_of v s.human)) b → LowersTo s (T.data_of v s.human) (λ m. depth m < room)
        → Begins IsCanonical (λ m. T.reads s.human R.lends m v) room (b ++ x) }
    // whatever is consumed there
    ensures one { (s : Settings) (v : T) (b x c y : List ℕ) (m : Msg) → IsSpelled (tree_of s (T.data_of v s.human)) b → Spells c m
        → b ++ x ≡ c ++ y → (tree_of s (T.data_of v s.human) ≡ Some m) × (c ≡ b) × (y ≡ x) }
    // Whatever a read answers has the content of what was written, and is all that is consumed.
    ensures same { (s : Settings) (v w : T) (b x : List ℕ) → T.is_value v → IsSpelled (tree_of s (T.data_of v s.human)) b
        → (c y : List ℕ) (m : Msg) → Spells c m → b ++ x ≡ c ++ y → T.reads s.human R.lends m w → T.same v w × (y ≡ x) }
    // So it is written alike, whatever the settings.
    ensures equal { (s : Settings) (v w : T) (b x : List ℕ) → T.is_value v → IsSpelled (tree_of s (T.data_of v s.human)) b
        → (c y : List ℕ) (m : Msg) → Spells c m → b ++ x ≡ c ++ y → T.reads s.human R.lends m w → (human : Bool)
        → T.data_of v human ≡ T.data_of w human }
{
    values_come_back::<R, T>();
}

/// What a struct is written as, with names, is read by the names that another type wants, as where a record's type has changed since: each
/// field is read from the tree of its name, wherever that is in the map, a field whose name isn't there is missing, and a name that isn't
/// wanted is passed over. So an older record is read where each field that was added is an `Option`, and a newer one where each field that is
/// wanted was kept.
///
/// Without names the places matter: fields are read from a list of as many elements, and from no other.
pub fn names_are_found()
    ensures found { (s : Settings) (names : List (List ℕ)) (x : Fields) → distinct names ≡ true → distinct (names_in x) ≡ true
        → fields names (mapping (lower_named s x)) ≡ Some (map (tree_named s x) names) }
    ensures read { (s : Settings) (names : List (List ℕ)) (fs : List (List ℕ × Option Data)) (x : Fields) → fields_of fs ≡ Some x → s.named ≡ true
        → distinct names ≡ true → distinct (names_in x) ≡ true → LowersTo s (structure_of fs) (λ m. fields names m ≡ Some (map (tree_named s x) names)) }
{}

/// In the bytes that one version of a type wrote with names, whatever follows them, another version finds for each of its names the tree
/// of that field, or none. So an older record is read where each field that was added may be missing, as an `Option` or a field with a
/// default, and a newer one where each wanted field was kept. The order of the fields doesn't matter, and fields that aren't wanted are
/// passed over. The reading of a derived struct is `OfFields` of its names.
pub fn versions_are_read()
    ensures read { (s : Settings) (fs : List (List ℕ × Option Data)) (names : List (List ℕ)) (b x : List ℕ) (room : ℕ)
        → distinct names ≡ true → IsRecord s fs b → LowersTo s (structure_of fs) (λ m. depth m < room)
        → Begins Spells (λ m. fields names m ≡ Some (found s fs names)) room (b ++ x) }
    // by a strict read too
    ensures strict { (s : Settings) (fs : List (List ℕ × Option Data)) (names : List (List ℕ)) (b x : List ℕ)
        (room : ℕ) → distinct names ≡ true → IsRecord s fs b → LowersTo s (structure_of fs) (λ m. depth m < room)
        → Begins IsCanonical (λ m. fields names m ≡ Some (found s fs names)) room (b ++ x) }
    // Whatever message begins there is the record, and is read exactly so; what follows is left.
    ensures exact { (s : Settings) (fs : List (List ℕ × Option Data)) (names : List (List ℕ)) (b x c y : List ℕ)
        (m : Msg) → distinct names ≡ true → IsRecord s fs b → Spells c m → b ++ x ≡ c ++ y
        → (fields names m ≡ Some (found s fs names)) × (y ≡ x) }
{}
