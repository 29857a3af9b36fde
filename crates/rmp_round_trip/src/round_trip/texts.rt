//! Characters, texts, bytes and extensions.
ghost use Rattle.std.proofs.Common.{refl};
ghost use Rattle.std.specs.Cmp.{nat_cmp_total};
ghost use Rattle.std.specs.Cmp.Lexicographic.{nat_list_cmp_total, slice_cmp};
ghost use Rattle.std.specs.Ordering.{nat_cmp};
ghost use Rattle.std.specs.Prelude.{Some, true, string_bytes};
ghost use Rattle.rmp_encode.specs.Data.{char};
ghost use Rattle.rmp_round_trip.specs.AlikeData.{bytes_alike, extension_alike, text_alike};
ghost use Rattle.rmp_round_trip.specs.AlikeOrder.{tied};
ghost use Rattle.rmp_wire.specs.Types.{bytes_of, buffer_bytes, tag_of, ext_bytes};
ghost use Rattle.rmp_round_trip.specs.LeafRounds.{char_row, string_row, str_row, bytes_row, buffer_row};
ghost use Rattle.rmp_round_trip.specs.LeafRounds.{ext_row, char_other, text_other, bytes_other, extension_other};
ghost use Rattle.rmp_round_trip.specs.OnlyLeaves.{char_only, string_only, str_only, bytes_only, buffer_only, ext_only};
ghost use Rattle.std.specs.Prelude.{◌≡◌};

use crate::round_trip::{ContentOrd, NeverNil, RoundTrip};
use rmp_wire::{ByteBuf, Bytes, Ext, ReadSlice};

impl<'de, R: ReadSlice<'de>> RoundTrip<'de, R> for char {
    ghost has_data = { λ human v. refl };

    ghost round = { λ lent s v fits. char_row s v fits };

    ghost same = { λ v w. v ≡ w };

    ghost alike = { λ human v w h i. Some (char (h i)) };

    ghost only = { λ s v fits. char_only s v fits };
}

impl NeverNil for char {
    ghost never_nil = { λ s v. char_other s v };
}

impl<'de, R: ReadSlice<'de>> ContentOrd<'de, R> for char {
    ghost equal = { λ v w h. tied nat_cmp nat_cmp_total v w h };
}

impl<'de, R: ReadSlice<'de>> RoundTrip<'de, R> for String {
    ghost has_data = { λ human v. refl };

    ghost round = { λ lent s v fits. string_row s (string_bytes v) };

    ghost same = { λ v w. string_bytes v ≡ string_bytes w };

    ghost alike = { λ human v w h. text_alike (string_bytes v) (string_bytes w) h };

    ghost only = { λ s v fits. string_only s (λ w. string_bytes w) (string_bytes v) };
}

impl NeverNil for String {
    ghost never_nil = { λ s v. text_other s (string_bytes v) };
}

impl<'de, R: ReadSlice<'de>> ContentOrd<'de, R> for String {
    ghost equal = { λ v w h. tied (slice_cmp nat_cmp) nat_list_cmp_total (string_bytes v) (string_bytes w) h };
}

impl<'de, R: ReadSlice<'de>> RoundTrip<'de, R> for &'de str {
    ghost borrows = { true };

    ghost has_data = { λ human v. refl };

    ghost round = { λ lent s v fits. str_row s v.now _ (lent refl) fits };

    ghost same = { λ v w. v.now ≡ w.now };

    ghost alike = { λ human v w h. text_alike v.now w.now h };

    ghost only = { λ s v fits. str_only s (λ w. w.now) v.now R.lends };
}

impl NeverNil for &str {
    ghost never_nil = { λ s v. text_other s v.now };
}

impl<'de, R: ReadSlice<'de>> ContentOrd<'de, R> for &'de str {
    ghost equal = { λ v w h. tied (slice_cmp nat_cmp) nat_list_cmp_total v.now w.now h };
}

impl<'de, R: ReadSlice<'de>> RoundTrip<'de, R> for Bytes<'de> {
    ghost borrows = { true };

    ghost has_data = { λ human v. refl };

    ghost round = { λ lent s v fits. bytes_row s (bytes_of v) _ (lent refl) };

    ghost same = { λ v w. bytes_of v ≡ bytes_of w };

    ghost alike = { λ human v w h. bytes_alike (bytes_of v) (bytes_of w) h };

    ghost only = { λ s v fits. bytes_only s (λ w. bytes_of w) (bytes_of v) R.lends };
}

impl NeverNil for Bytes<'_> {
    ghost never_nil = { λ s v. bytes_other s (bytes_of v) };
}

impl<'de, R: ReadSlice<'de>> RoundTrip<'de, R> for ByteBuf {
    ghost has_data = { λ human v. refl };

    ghost round = { λ lent s v fits. buffer_row s (buffer_bytes v) };

    ghost same = { λ v w. buffer_bytes v ≡ buffer_bytes w };

    ghost alike = { λ human v w h. bytes_alike (buffer_bytes v) (buffer_bytes w) h };

    ghost only = { λ s v fits. buffer_only s (λ w. buffer_bytes w) (buffer_bytes v) };
}

impl NeverNil for ByteBuf {
    ghost never_nil = { λ s v. bytes_other s (buffer_bytes v) };
}

impl<'de, R: ReadSlice<'de>> RoundTrip<'de, R> for Ext {
    ghost has_data = { λ human v. refl };

    ghost round = { λ lent s v fits. ext_row s v };

    ghost same = { λ v w. (tag_of v ≡ tag_of w) × (ext_bytes v ≡ ext_bytes w) };

    ghost alike = { λ human v w h. extension_alike (tag_of v) (tag_of w) (ext_bytes v) (ext_bytes w) h };

    ghost only = { λ s v fits. ext_only s v };
}

impl NeverNil for Ext {
    ghost never_nil = { λ s v. extension_other s (tag_of v) (ext_bytes v) };
}
