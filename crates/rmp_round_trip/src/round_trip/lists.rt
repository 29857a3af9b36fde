//! Vectors, queues, arrays and slices.
ghost use Rattle.std.specs.Prelude.{map};
ghost use Rattle.rmp_decode.specs.Arrays.{Exactly};
ghost use Rattle.rmp_decode.specs.Rows.{ReadsEach};
ghost use Rattle.rmp_round_trip.specs.AlikeData.{array_alike, sequence_alike, slice_alike};
ghost use Rattle.rmp_round_trip.specs.AlikeOrder.{row_tied};
ghost use Rattle.rmp_round_trip.specs.OnlyRows.{array_only, list_only};
ghost use Rattle.rmp_round_trip.specs.RoundTrip.{Alike, Only};
ghost use Rattle.rmp_round_trip.specs.Rounds.{each_some, each_row, rows_map, slice_some, slice_row, slice_other};
ghost use Rattle.rmp_round_trip.specs.Rounds.{sequence_some, sequence_row, sequence_other, tuple_some, tuple_row, tuple_other};

use crate::round_trip::{ContentOrd, NeverNil, RoundTrip};
use rmp_encode::Serialize;
use rmp_wire::ReadSlice;
use std::collections::VecDeque;

impl<'de, R: ReadSlice<'de>, T: RoundTrip<'de, R>> RoundTrip<'de, R> for Vec<T> {
    ghost borrows = { T.borrows };

    ghost has_data = { λ human v. slice_some _ (each_some (λ x. T.data_of x human) (T.has_data human) v.items) };

    ghost round = { λ lent s v fits. slice_row s _ (λ ms. ReadsEach (T.reads s.human R.lends) ms v.items)
        (each_row s (λ x. T.data_of x s.human) T.is_value (T.reads s.human R.lends) (T.round lent s) v.items fits) };

    ghost same = { λ v w. Alike T.same v.items w.items };

    ghost alike = { λ human v w h. slice_alike T.same (λ x. T.data_of x human) (T.alike human) v.items w.items h };

    ghost only = { λ s v fits. list_only s _ (λ w. w.items) (T.reads s.human R.lends) T.same v.items
        (slice_row s _ (λ ms. ReadsEach (Only (T.reads s.human R.lends) T.same) ms v.items)
        (each_row s (λ x. T.data_of x s.human) T.is_value (Only (T.reads s.human R.lends) T.same) (T.only s) v.items fits)) };
}

impl<T: Serialize> NeverNil for Vec<T> {
    ghost never_nil = { λ s v. slice_other s (map (λ x. T.data_of x s.human) v.items) };
}

impl<T: Serialize> NeverNil for &[T] {
    ghost never_nil = { λ s v. slice_other s (map (λ x. T.data_of x s.human) v.now) };
}

impl<'de, R: ReadSlice<'de>, T: ContentOrd<'de, R>> ContentOrd<'de, R> for Vec<T> {
    ghost equal = { λ v w h. row_tied T.same T.cmp T.equal v.items w.items h };
}

impl<'de, R: ReadSlice<'de>, T: RoundTrip<'de, R>> RoundTrip<'de, R> for VecDeque<T> {
    ghost borrows = { T.borrows };

    ghost has_data = { λ human v. sequence_some _ (each_some (λ x. T.data_of x human) (T.has_data human) v.items) };

    ghost round = { λ lent s v fits. sequence_row s _ (λ ms. ReadsEach (T.reads s.human R.lends) ms v.items)
        (each_row s (λ x. T.data_of x s.human) T.is_value (T.reads s.human R.lends) (T.round lent s) v.items fits) };

    ghost same = { λ v w. Alike T.same v.items w.items };

    ghost alike = { λ human v w h. sequence_alike T.same (λ x. T.data_of x human) (T.alike human) v.items w.items h };

    ghost only = { λ s v fits. list_only s _ (λ w. w.items) (T.reads s.human R.lends) T.same v.items
        (sequence_row s _ (λ ms. ReadsEach (Only (T.reads s.human R.lends) T.same) ms v.items)
        (each_row s (λ x. T.data_of x s.human) T.is_value (Only (T.reads s.human R.lends) T.same) (T.only s) v.items fits)) };
}

impl<T: Serialize> NeverNil for VecDeque<T> {
    ghost never_nil = { λ s v. sequence_other s (map (λ x. T.data_of x s.human) v.items) };
}

impl<'de, R: ReadSlice<'de>, T: ContentOrd<'de, R>> ContentOrd<'de, R> for VecDeque<T> {
    ghost equal = { λ v w h. row_tied T.same T.cmp T.equal v.items w.items h };
}

impl<'de, R: ReadSlice<'de>, T: RoundTrip<'de, R>, const N: usize> RoundTrip<'de, R> for [T; N] {
    ghost borrows = { T.borrows };

    ghost has_data = { λ human v. tuple_some _ (each_some (λ x. T.data_of x human) (T.has_data human) v) };

    ghost round = { λ lent s v fits. tuple_row s _ (Exactly N (T.reads s.human R.lends) v)
        (rows_map s _ _ _ (λ ms each. (fits.0, each))
        (each_row s (λ x. T.data_of x s.human) T.is_value (T.reads s.human R.lends) (T.round lent s) v fits.1)) };

    ghost same = { λ v w. Alike T.same v w };

    ghost alike = { λ human v w h. array_alike T.same (λ x. T.data_of x human) (T.alike human) v w h };

    ghost only = { λ s v fits. array_only s _ N (T.reads s.human R.lends) T.same v
        (tuple_row s _ (λ ms. ReadsEach (Only (T.reads s.human R.lends) T.same) ms v)
        (each_row s (λ x. T.data_of x s.human) T.is_value (Only (T.reads s.human R.lends) T.same) (T.only s) v fits.1)) };
}

impl<T: Serialize, const N: usize> NeverNil for [T; N] {
    ghost never_nil = { λ s v. tuple_other s (map (λ x. T.data_of x s.human) v) };
}

impl<'de, R: ReadSlice<'de>, T: ContentOrd<'de, R>, const N: usize> ContentOrd<'de, R> for [T; N] {
    ghost equal = { λ v w h. row_tied T.same T.cmp T.equal v w h };
}
