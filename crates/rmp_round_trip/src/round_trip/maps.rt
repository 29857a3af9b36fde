//! Sets and maps.
ghost use Rattle.std.specs.Prelude.{map};
ghost use Rattle.rmp_encode.specs.Trees.{in_turn};
ghost use Rattle.rmp_decode.specs.Rows.{ReadsEach};
ghost use Rattle.rmp_round_trip.specs.AlikeData.{mapping_alike, sequence_alike};
ghost use Rattle.rmp_round_trip.specs.AlikeOrder.{pairs_tied, row_tied};
ghost use Rattle.rmp_round_trip.specs.MapRounds.{mapping_some, map_row, map_other, pairs_row, set_row};
ghost use Rattle.rmp_round_trip.specs.OnlyMaps.{entries_only, set_only};
ghost use Rattle.rmp_round_trip.specs.RoundTrip.{Alike, AlikePairs, Only};
ghost use Rattle.rmp_round_trip.specs.Rounds.{each_row, each_some, sequence_some, sequence_row, sequence_other};

use crate::round_trip::{ContentOrd, NeverNil, RoundTrip};
use rmp_encode::Serialize;
use rmp_wire::ReadSlice;
use std::collections::{BTreeMap, BTreeSet};

impl<'de, R: ReadSlice<'de>, T: ContentOrd<'de, R>> RoundTrip<'de, R> for BTreeSet<T> {
    ghost borrows = { T.borrows };

    ghost has_data = { λ human v. sequence_some _ (each_some (λ x. T.data_of x human) (T.has_data human) v.keys) };

    ghost round = { λ lent s v fits. set_row s (λ x. T.data_of x s.human) T.is_value (T.reads s.human R.lends) (T.round lent s) T.cmp v.keys fits.1 fits.0 };

    ghost same = { λ v w. Alike T.same v.keys w.keys };

    ghost alike = { λ human v w h. sequence_alike T.same (λ x. T.data_of x human) (T.alike human) v.keys w.keys h };

    ghost only = { λ s v fits. set_only s _ (λ w. w.keys) T.total (T.reads s.human R.lends) T.same T.equal v.keys fits.1
        (sequence_row s _ (λ ms. ReadsEach (Only (T.reads s.human R.lends) T.same) ms v.keys)
        (each_row s (λ x. T.data_of x s.human) T.is_value (Only (T.reads s.human R.lends) T.same) (T.only s) v.keys fits.0)) };
}

impl<T: Serialize + Ord> NeverNil for BTreeSet<T> {
    ghost never_nil = { λ s v. sequence_other s (map (λ x. T.data_of x s.human) v.keys) };
}

impl<'de, R: ReadSlice<'de>, T: ContentOrd<'de, R>> ContentOrd<'de, R> for BTreeSet<T> {
    ghost equal = { λ v w h. row_tied T.same T.cmp T.equal v.keys w.keys h };
}

impl<'de, R: ReadSlice<'de>, K: ContentOrd<'de, R>, V: RoundTrip<'de, R>> RoundTrip<'de, R>
    for BTreeMap<K, V> {
    ghost use Rattle.std.specs.Prelude.{◌||◌};
    ghost use Rattle.rmp_round_trip.specs.Rounds.{first_lent, second_lent};

    ghost borrows = { K.borrows || V.borrows };

    ghost has_data = { λ human v. mapping_some (λ x. K.data_of x human) (λ x. V.data_of x human) (K.has_data human) (V.has_data human) v.entries };

    ghost round = { λ lent s v fits. map_row s (λ x. K.data_of x s.human) (λ x. V.data_of x s.human) K.is_value V.is_value (K.reads s.human R.lends)
        (V.reads s.human R.lends) (K.round (first_lent K.borrows V.borrows R.lends lent) s) (V.round (second_lent K.borrows V.borrows R.lends lent) s)
        K.total v.entries fits.1 fits.0 };

    ghost same = { λ v w. AlikePairs K.same V.same v.entries w.entries };

    ghost alike = { λ human v w h. mapping_alike K.same (λ x. K.data_of x human) (K.alike human) V.same (λ x. V.data_of x human)
        (V.alike human) v.entries w.entries h };

    ghost only = { λ s v fits. entries_only (K.reads s.human R.lends) (V.reads s.human R.lends) K.same V.same s _ (λ w. w.entries) K.total K.equal v.entries fits.1
        (pairs_row s (λ x. K.data_of x s.human) (λ x. V.data_of x s.human) K.is_value V.is_value
        (Only (K.reads s.human R.lends) K.same) (Only (V.reads s.human R.lends) V.same) (K.only s) (V.only s) v.entries fits.0) };
}

impl<K: Serialize + Ord, V: Serialize> NeverNil for BTreeMap<K, V> {
    ghost never_nil = { λ s v. map_other s (in_turn (λ x. K.data_of x s.human) (λ x. V.data_of x s.human) v.entries) };
}

impl<'de, R: ReadSlice<'de>, K: ContentOrd<'de, R>, V: ContentOrd<'de, R>> ContentOrd<'de, R>
    for BTreeMap<K, V> {
    ghost equal = { λ v w h. pairs_tied K.same V.same K.cmp V.cmp K.equal V.equal v.entries w.entries h };
}
