//! Types whose values are read as they were written.
ghost use Rattle.std.specs.Prelude.{◌≡◌, ◌≢◌, Bool, true, false, Option, Some, IsSome};
ghost use Rattle.std.specs.declared.cmp.Ordering.TheVariants.{Equal};
ghost use Rattle.rmp_encode.specs.Trees.{tree_of};
ghost use Rattle.rmp_encode.specs.declared.settings.Settings.{Settings};
ghost use Rattle.rmp_round_trip.specs.RoundTrip.{LowersTo, Only};
ghost use Rattle.rmp_wire.specs.Msg.{nil};

use rmp_decode::Deserialize;
use rmp_encode::Serialize;
use rmp_wire::ReadSlice;

mod lists;
mod maps;
mod numbers;
mod options;
mod texts;
mod tuples;

/// A type whose values are read as they were written, and as nothing else, whatever the settings, if they are the same on both sides.
///
/// It has no calls. Contracts of generic code use its laws: a function over `T: RoundTrip<'de, R>` that writes a value and reads it
/// has the value back, by a call of `laws::written_is_read::<R, T>()`.
pub trait RoundTrip<'de, R: ReadSlice<'de>>: Serialize + Deserialize<'de, R> {
    // Whether a value borrows what it is read from, so that it is read only where the source lends its bytes.
    ghost borrows: { Bool } = { false };

    // No value is refused.
    ghost has_data: { (human : Bool) (v : Self) → IsSome (Self.data_of v human) };

    // With names or without, and in each mode, what a value lowers to is read as that value.
    ghost round: { (borrows ≡ true → R.lends ≡ true) → (s : Settings) (v : Self) → Self.is_value v
        → LowersTo s (Self.data_of v s.human) (λ m. Self.reads s.human R.lends m v) };

    // Whether two values have the same content: what `PartialEq` would compare. Capacity and allocator are no part of it.
    ghost same: { Self → Self → Type 0 };

    // Values of the same content are written alike.
    ghost alike: { (human : Bool) (v w : Self) → same v w → Self.data_of v human ≡ Self.data_of w human };

    // Nothing else is read there: with names or without, and in each mode, whatever is read of what a value lowers to has its content.
    ghost only: { (s : Settings) (v : Self) → Self.is_value v
        → LowersTo s (Self.data_of v s.human) (λ m. Only (Self.reads s.human R.lends) same m v) };
}

/// A type no value of which is written as nil.
///
/// It has no calls. Contracts of generic code use its law.
pub trait NeverNil: Serialize {
    ghost never_nil: { (s : Settings) (v : Self) → tree_of s (Self.data_of v s.human) ≢ Some nil };
}

/// A type in whose order values of the same content are equal, as the keys of sets and maps have to be.
///
/// It has no calls. Contracts of generic code use its law.
pub trait ContentOrd<'de, R: ReadSlice<'de>>: RoundTrip<'de, R> + Ord {
    ghost equal: { (v w : Self) → Self.same v w → Self.cmp v w ≡ Equal };
}
