//! The laws of values that are written and read one after another.
ghost use Rattle.std.specs.Prelude.{◌≡◌, ◌<◌, ◌+◌, ℕ, true, List, ◌++◌, All, Option, length, map};
ghost use Rattle.rmp_wire.specs.Msg.{Msgs, depth};
ghost use Rattle.rmp_encode.specs.Data.{Data};
ghost use Rattle.rmp_encode.specs.declared.settings.Settings.{Settings};
ghost use Rattle.rmp_decode.specs.Rows.{ReadsEach};
ghost use Rattle.rmp_round_trip.specs.InTurn.{joined, LowerInTurn, ReadInTurn, WrittenInTurn};
ghost use Rattle.rmp_round_trip.specs.RoundTrip.{Alike, LowersTo};

use crate::laws::values_come_back;
use crate::round_trip::RoundTrip;
use rmp_wire::ReadSlice;

/// Values of any types that are written one after another, and nest below the limit, are read in order by one reader: at the place of each is the
/// tree that its data lowers to, whatever follows the last. Each read takes the piece that was written for the value at its place, so the position
/// moves on by the length of that piece, and what follows is left.
///
/// What holds of a value's tree (`values_come_back`) holds of the message at its place. So the values may be of as many types as there are.
pub fn messages_in_turn()
    ensures read { (s : Settings) (ds : List (Option Data)) (bs : List (List ℕ)) (x : List ℕ) (room position : ℕ)
        → All (λ d. LowersTo s d (λ m. depth m < room)) ds → WrittenInTurn s ds bs
        → (ms : Msgs) × LowerInTurn s ds ms × ReadInTurn room position (joined bs ++ x) ms bs x (position + length (joined bs)) }
    // Whatever as many reads find there are those trees, from those pieces.
    ensures only { (s : Settings) (ds : List (Option Data)) (bs : List (List ℕ)) (x : List ℕ) (room position : ℕ) → WrittenInTurn s ds bs
        → (ms : Msgs) (cs : List (List ℕ)) (y : List ℕ) (end : ℕ) → length cs ≡ length ds
        → ReadInTurn room position (joined bs ++ x) ms cs y end
        → LowerInTurn s ds ms × (cs ≡ bs) × (y ≡ x) × (end ≡ position + length (joined bs)) }
{}

/// Values of one type that are written one after another, and nest below the limit, are read as what was written, by as many reads.
pub fn values_in_turn<'de, R: ReadSlice<'de>, T: RoundTrip<'de, R>>()
    ensures read { (T.borrows ≡ true → R.lends ≡ true) → (s : Settings) (vs : List T) (bs : List (List ℕ)) (x : List ℕ) (room position : ℕ)
        → All (λ v. T.is_value v) vs → All (λ d. LowersTo s d (λ m. depth m < room)) (map (λ v. T.data_of v s.human) vs)
        → WrittenInTurn s (map (λ v. T.data_of v s.human) vs) bs
        → (ms : Msgs) × ReadsEach (T.reads s.human R.lends) ms vs
        × ReadInTurn room position (joined bs ++ x) ms bs x (position + length (joined bs)) }
    // Whatever as many reads answer has the content of what was written.
    ensures only { (s : Settings) (vs : List T) (bs : List (List ℕ)) (x : List ℕ) (room position : ℕ) → All (λ v. T.is_value v) vs
        → WrittenInTurn s (map (λ v. T.data_of v s.human) vs) bs → (ws : List T) (ms : Msgs) (cs : List (List ℕ)) (y : List ℕ) (end : ℕ)
        → length ws ≡ length vs → ReadsEach (T.reads s.human R.lends) ms ws
        → ReadInTurn room position (joined bs ++ x) ms cs y end
        → Alike T.same vs ws × (cs ≡ bs) × (y ≡ x) × (end ≡ position + length (joined bs)) }
{
    values_come_back::<R, T>();
}
