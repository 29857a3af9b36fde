//! Truth values, numbers, floats and unit.
ghost use Rattle.std.proofs.Common.{refl};
ghost use Rattle.rmp_round_trip.specs.LeafRounds.{byte_row, unsigned_row_16, unsigned_row_32, unsigned_row_64, signed_row_8, signed_row_16, signed_row_32};
ghost use Rattle.rmp_round_trip.specs.LeafRounds.{signed_row_64, truth_row, unit_row, float32_row, float64_row, byte_other, pos_other};
ghost use Rattle.rmp_round_trip.specs.LeafRounds.{whole_other, unsigned128_other, signed128_other, truth_other, float32_other, float64_other};
ghost use Rattle.rmp_round_trip.specs.OnlyLeaves.{unit_only, truth_only, byte_only, unsigned_only, signed_only, float32_only, float64_only};
ghost use Rattle.rmp_round_trip.specs.OnlyLeaves.{unsigned128_only, signed128_only};
ghost use Rattle.rmp_encode.specs.Data.{byte, signed128, truth, unsigned128, whole};
ghost use Rattle.rmp_round_trip.specs.AlikeData.{float32_alike, float64_alike};
ghost use Rattle.rmp_round_trip.specs.AlikeOrder.{tied};
ghost use Rattle.std.specs.Cmp.{bool_cmp_total, int_cmp_total, nat_cmp_total};
ghost use Rattle.std.specs.Ordering.{bool_cmp, int_cmp, nat_cmp};
ghost use Rattle.std.specs.Prelude.{◌≡◌, Some, pos, negsuc};
ghost use Rattle.rmp_round_trip.specs.WideRounds.{unsigned128_row, signed128_row};

use crate::round_trip::{ContentOrd, NeverNil, RoundTrip};
use rmp_wire::{F32Bits, F64Bits, ReadSlice};

impl<'de, R: ReadSlice<'de>> RoundTrip<'de, R> for () {
    ghost has_data = { λ human v. refl };

    ghost round = { λ lent s v fits. unit_row s };

    ghost same = { λ v w. Unit {0} };

    ghost alike = { λ human v w h. refl };

    ghost only = { λ s v fits. unit_only s };
}

impl<'de, R: ReadSlice<'de>> ContentOrd<'de, R> for () {
    ghost equal = { λ v w h. refl };
}

impl<'de, R: ReadSlice<'de>> RoundTrip<'de, R> for bool {
    ghost has_data = { λ human v. refl };

    ghost round = { λ lent s v fits. truth_row s v };

    ghost same = { λ v w. v ≡ w };

    ghost alike = { λ human v w h i. Some (truth (h i)) };

    ghost only = { λ s v fits. truth_only s v };
}

impl NeverNil for bool {
    ghost never_nil = { λ s v. truth_other s v };
}

impl<'de, R: ReadSlice<'de>> ContentOrd<'de, R> for bool {
    ghost equal = { λ v w h. tied bool_cmp bool_cmp_total v w h };
}

impl<'de, R: ReadSlice<'de>> RoundTrip<'de, R> for u8 {
    ghost has_data = { λ human v. refl };

    ghost round = { λ lent s v fits. byte_row s v fits };

    ghost same = { λ v w. v ≡ w };

    ghost alike = { λ human v w h i. Some (byte (h i)) };

    ghost only = { λ s v fits. byte_only s v };
}

impl NeverNil for u8 {
    ghost never_nil = { λ s v. byte_other s v };
}

impl<'de, R: ReadSlice<'de>> ContentOrd<'de, R> for u8 {
    ghost equal = { λ v w h. tied nat_cmp nat_cmp_total v w h };
}

impl<'de, R: ReadSlice<'de>> RoundTrip<'de, R> for u16 {
    ghost has_data = { λ human v. refl };

    ghost round = { λ lent s v fits. unsigned_row_16 s v fits };

    ghost same = { λ v w. v ≡ w };

    ghost alike = { λ human v w h i. Some (whole (pos (h i))) };

    ghost only = { λ s v fits. unsigned_only s 65535 v };
}

impl NeverNil for u16 {
    ghost never_nil = { λ s v. pos_other s v };
}

impl<'de, R: ReadSlice<'de>> ContentOrd<'de, R> for u16 {
    ghost equal = { λ v w h. tied nat_cmp nat_cmp_total v w h };
}

impl<'de, R: ReadSlice<'de>> RoundTrip<'de, R> for u32 {
    ghost has_data = { λ human v. refl };

    ghost round = { λ lent s v fits. unsigned_row_32 s v fits };

    ghost same = { λ v w. v ≡ w };

    ghost alike = { λ human v w h i. Some (whole (pos (h i))) };

    ghost only = { λ s v fits. unsigned_only s 4294967295 v };
}

impl NeverNil for u32 {
    ghost never_nil = { λ s v. pos_other s v };
}

impl<'de, R: ReadSlice<'de>> ContentOrd<'de, R> for u32 {
    ghost equal = { λ v w h. tied nat_cmp nat_cmp_total v w h };
}

impl<'de, R: ReadSlice<'de>> RoundTrip<'de, R> for u64 {
    ghost has_data = { λ human v. refl };

    ghost round = { λ lent s v fits. unsigned_row_64 s v fits };

    ghost same = { λ v w. v ≡ w };

    ghost alike = { λ human v w h i. Some (whole (pos (h i))) };

    ghost only = { λ s v fits. unsigned_only s 18446744073709551615 v };
}

impl NeverNil for u64 {
    ghost never_nil = { λ s v. pos_other s v };
}

impl<'de, R: ReadSlice<'de>> ContentOrd<'de, R> for u64 {
    ghost equal = { λ v w h. tied nat_cmp nat_cmp_total v w h };
}

impl<'de, R: ReadSlice<'de>> RoundTrip<'de, R> for usize {
    ghost has_data = { λ human v. refl };

    ghost round = { λ lent s v fits. unsigned_row_64 s v fits };

    ghost same = { λ v w. v ≡ w };

    ghost alike = { λ human v w h i. Some (whole (pos (h i))) };

    ghost only = { λ s v fits. unsigned_only s 18446744073709551615 v };
}

impl NeverNil for usize {
    ghost never_nil = { λ s v. pos_other s v };
}

impl<'de, R: ReadSlice<'de>> ContentOrd<'de, R> for usize {
    ghost equal = { λ v w h. tied nat_cmp nat_cmp_total v w h };
}

impl<'de, R: ReadSlice<'de>> RoundTrip<'de, R> for i8 {
    ghost has_data = { λ human v. refl };

    ghost round = { λ lent s v fits. signed_row_8 s v fits };

    ghost same = { λ v w. v ≡ w };

    ghost alike = { λ human v w h i. Some (whole (h i)) };

    ghost only = { λ s v fits. signed_only s (negsuc 127) (pos 127) v };
}

impl NeverNil for i8 {
    ghost never_nil = { λ s v. whole_other s v };
}

impl<'de, R: ReadSlice<'de>> ContentOrd<'de, R> for i8 {
    ghost equal = { λ v w h. tied int_cmp int_cmp_total v w h };
}

impl<'de, R: ReadSlice<'de>> RoundTrip<'de, R> for i16 {
    ghost has_data = { λ human v. refl };

    ghost round = { λ lent s v fits. signed_row_16 s v fits };

    ghost same = { λ v w. v ≡ w };

    ghost alike = { λ human v w h i. Some (whole (h i)) };

    ghost only = { λ s v fits. signed_only s (negsuc 32767) (pos 32767) v };
}

impl NeverNil for i16 {
    ghost never_nil = { λ s v. whole_other s v };
}

impl<'de, R: ReadSlice<'de>> ContentOrd<'de, R> for i16 {
    ghost equal = { λ v w h. tied int_cmp int_cmp_total v w h };
}

impl<'de, R: ReadSlice<'de>> RoundTrip<'de, R> for i32 {
    ghost has_data = { λ human v. refl };

    ghost round = { λ lent s v fits. signed_row_32 s v fits };

    ghost same = { λ v w. v ≡ w };

    ghost alike = { λ human v w h i. Some (whole (h i)) };

    ghost only = { λ s v fits. signed_only s (negsuc 2147483647) (pos 2147483647) v };
}

impl NeverNil for i32 {
    ghost never_nil = { λ s v. whole_other s v };
}

impl<'de, R: ReadSlice<'de>> ContentOrd<'de, R> for i32 {
    ghost equal = { λ v w h. tied int_cmp int_cmp_total v w h };
}

impl<'de, R: ReadSlice<'de>> RoundTrip<'de, R> for i64 {
    ghost has_data = { λ human v. refl };

    ghost round = { λ lent s v fits. signed_row_64 s v fits };

    ghost same = { λ v w. v ≡ w };

    ghost alike = { λ human v w h i. Some (whole (h i)) };

    ghost only = { λ s v fits. signed_only s (negsuc 9223372036854775807) (pos 9223372036854775807) v };
}

impl NeverNil for i64 {
    ghost never_nil = { λ s v. whole_other s v };
}

impl<'de, R: ReadSlice<'de>> ContentOrd<'de, R> for i64 {
    ghost equal = { λ v w h. tied int_cmp int_cmp_total v w h };
}

impl<'de, R: ReadSlice<'de>> RoundTrip<'de, R> for isize {
    ghost has_data = { λ human v. refl };

    ghost round = { λ lent s v fits. signed_row_64 s v fits };

    ghost same = { λ v w. v ≡ w };

    ghost alike = { λ human v w h i. Some (whole (h i)) };

    ghost only = { λ s v fits. signed_only s (negsuc 9223372036854775807) (pos 9223372036854775807) v };
}

impl NeverNil for isize {
    ghost never_nil = { λ s v. whole_other s v };
}

impl<'de, R: ReadSlice<'de>> ContentOrd<'de, R> for isize {
    ghost equal = { λ v w h. tied int_cmp int_cmp_total v w h };
}

impl<'de, R: ReadSlice<'de>> RoundTrip<'de, R> for u128 {
    ghost has_data = { λ human v. refl };

    ghost round = { λ lent s v fits. unsigned128_row s v fits };

    ghost same = { λ v w. v ≡ w };

    ghost alike = { λ human v w h i. Some (unsigned128 (h i)) };

    ghost only = { λ s v fits. unsigned128_only s v fits };
}

impl NeverNil for u128 {
    ghost never_nil = { λ s v. unsigned128_other s v };
}

impl<'de, R: ReadSlice<'de>> ContentOrd<'de, R> for u128 {
    ghost equal = { λ v w h. tied nat_cmp nat_cmp_total v w h };
}

impl<'de, R: ReadSlice<'de>> RoundTrip<'de, R> for i128 {
    ghost has_data = { λ human v. refl };

    ghost round = { λ lent s v fits. signed128_row s v fits };

    ghost same = { λ v w. v ≡ w };

    ghost alike = { λ human v w h i. Some (signed128 (h i)) };

    ghost only = { λ s v fits. signed128_only s v fits };
}

impl NeverNil for i128 {
    ghost never_nil = { λ s v. signed128_other s v };
}

impl<'de, R: ReadSlice<'de>> ContentOrd<'de, R> for i128 {
    ghost equal = { λ v w h. tied int_cmp int_cmp_total v w h };
}

impl<'de, R: ReadSlice<'de>> RoundTrip<'de, R> for F32Bits {
    ghost has_data = { λ human v. refl };

    ghost round = { λ lent s v fits. float32_row s v.0 };

    ghost same = { λ v w. v.0 ≡ w.0 };

    ghost alike = { λ human v w h. float32_alike v.0 w.0 h };

    ghost only = { λ s v fits. float32_only s (λ w. w.0) v.0 };
}

impl NeverNil for F32Bits {
    ghost never_nil = { λ s v. float32_other s v.0 };
}

impl<'de, R: ReadSlice<'de>> RoundTrip<'de, R> for F64Bits {
    ghost has_data = { λ human v. refl };

    ghost round = { λ lent s v fits. float64_row s v.0 };

    ghost same = { λ v w. v.0 ≡ w.0 };

    ghost alike = { λ human v w h. float64_alike v.0 w.0 h };

    ghost only = { λ s v fits. float64_only s (λ w. w.0) v.0 };
}

impl NeverNil for F64Bits {
    ghost never_nil = { λ s v. float64_other s v.0 };
}
