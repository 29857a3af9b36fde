//! Options, boxes and references.
ghost use Rattle.rmp_round_trip.specs.AlikeData.{option_alike};
ghost use Rattle.rmp_round_trip.specs.AlikeOrder.{option_tied};
ghost use Rattle.rmp_round_trip.specs.OnlyRows.{inside_only, option_only};
ghost use Rattle.rmp_round_trip.specs.RoundTrip.{AlikeOption, Only};
ghost use Rattle.rmp_round_trip.specs.Rounds.{option_some, option_row};

use crate::round_trip::{ContentOrd, NeverNil, RoundTrip};
use rmp_wire::ReadSlice;

impl<'de, R: ReadSlice<'de>, T: RoundTrip<'de, R> + NeverNil> RoundTrip<'de, R> for Option<T> {
    ghost borrows = { T.borrows };

    ghost has_data = { λ human v. option_some (λ x. T.data_of x human) (T.has_data human) v };

    ghost round = { λ lent s v fits. option_row s (λ x. T.data_of x s.human) T.is_value (T.reads s.human R.lends) (T.never_nil s) (T.round lent s) v fits };

    ghost same = { λ v w. AlikeOption T.same v w };

    ghost alike = { λ human v w h. option_alike T.same (λ x. T.data_of x human) (T.alike human) v w h };

    ghost only = { λ s v fits. option_only s _ (T.reads s.human R.lends) T.same v
        (option_row s (λ x. T.data_of x s.human) T.is_value (Only (T.reads s.human R.lends) T.same) (T.never_nil s) (T.only s) v fits) };
}

impl<'de, R: ReadSlice<'de>, T: ContentOrd<'de, R> + NeverNil> ContentOrd<'de, R> for Option<T> {
    ghost equal = { λ v w h. option_tied T.same T.cmp T.equal v w h };
}

impl<'de, R: ReadSlice<'de>, T: RoundTrip<'de, R>> RoundTrip<'de, R> for Box<T> {
    ghost borrows = { T.borrows };

    ghost has_data = { λ human v. T.has_data human v.value };

    ghost round = { λ lent s v fits. T.round lent s v.value fits };

    ghost same = { λ v w. T.same v.value w.value };

    ghost alike = { λ human v w h. T.alike human v.value w.value h };

    ghost only = { λ s v fits. inside_only s _ (λ w. w.value) (T.reads s.human R.lends) T.same v.value (T.only s v.value fits) };
}

impl<T: NeverNil> NeverNil for Box<T> {
    ghost never_nil = { λ s v. T.never_nil s v.value };
}

impl<'de, R: ReadSlice<'de>, T: ContentOrd<'de, R>> ContentOrd<'de, R> for Box<T> {
    ghost equal = { λ v w h. T.equal v.value w.value h };
}

impl<T: NeverNil> NeverNil for &T {
    ghost never_nil = { λ s v. T.never_nil s v.now };
}
