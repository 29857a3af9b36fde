//! Tuples. Written by tools/tuples.py.
ghost use Rattle.std.specs.Prelude.{◌∷◌, ◌||◌, [], true};
ghost use Rattle.rmp_encode.specs.Trees.{tuple_of};
ghost use Rattle.rmp_round_trip.specs.AlikeOrder.{then_tied};
ghost use Rattle.rmp_round_trip.specs.OnlyRows.{item_only, last_only, lowers_then, row_both};
ghost use Rattle.rmp_round_trip.specs.RoundTrip.{Only};
ghost use Rattle.rmp_round_trip.specs.Rounds.{rows_none, rows_cons, parts_none, parts_cons, tuple_some, tuple_row, tuple_other, first_lent, second_lent};

use crate::round_trip::{ContentOrd, NeverNil, RoundTrip};
use rmp_decode::Deserialize;
use rmp_encode::Serialize;
use rmp_wire::ReadSlice;

impl<'de, R: ReadSlice<'de>, A: RoundTrip<'de, R>> RoundTrip<'de, R> for (A,) {
    ghost borrows = { A.borrows };

    ghost has_data = { λ human v. tuple_some _ (parts_cons _ _ (A.has_data human v.0) parts_none) };

    ghost round = { λ lent s v fits. tuple_row s _ _ (rows_cons s _ _ (λ m. A.reads s.human R.lends m v.0) _ (A.round lent s v.0 fits) (rows_none s)) };

    ghost same = { λ v w. A.same v.0 w.0 };

    ghost alike = { λ human v w h i. tuple_of (A.alike human v.0 w.0 h i ∷ []) };

    ghost only = { λ s v fits. lowers_then s _ _ (λ m. (w : _) → ⟦<(A,) as Deserialize<'de, R>>⟧.reads s.human R.lends m w
        → A.same v.0 w.0) (tuple_row s _ _ (rows_cons s _ _ (λ m. Only (A.reads s.human R.lends) A.same m v.0) _ (A.only s v.0 fits) (rows_none s)))
        (λ m q w r. row_both _ _ _ m q r (last_only (A.reads s.human R.lends) A.same v.0 w.0)) };
}

impl<A: Serialize> NeverNil for (A,) {
    ghost never_nil = { λ s v. tuple_other s (A.data_of v.0 s.human ∷ []) };
}

impl<'de, R: ReadSlice<'de>, A: ContentOrd<'de, R>> ContentOrd<'de, R> for (A,) {
    ghost equal = { λ v w h. (A.equal v.0 w.0 h) };
}

impl<'de, R: ReadSlice<'de>, A: RoundTrip<'de, R>, B: RoundTrip<'de, R>> RoundTrip<'de, R>
    for (A, B) {
    ghost borrows = { (A.borrows || B.borrows) };

    ghost has_data = { λ human v. tuple_some _ (parts_cons _ _ (A.has_data human v.0) (parts_cons _ _ (B.has_data human v.1) parts_none)) };

    ghost round = { λ lent s v fits. tuple_row s _ _ (rows_cons s _ _ (λ m. A.reads s.human R.lends m v.0) _
        (A.round (first_lent A.borrows B.borrows R.lends lent) s v.0 fits.0)
        (rows_cons s _ _ (λ m. B.reads s.human R.lends m v.1) _ (B.round (second_lent A.borrows B.borrows R.lends lent) s v.1 fits.1) (rows_none s))) };

    ghost same = { λ v w. A.same v.0 w.0 × B.same v.1 w.1 };

    ghost alike = { λ human v w h i. tuple_of (A.alike human v.0 w.0 h.0 i ∷ B.alike human v.1 w.1 h.1 i ∷ []) };

    ghost only = { λ s v fits. lowers_then s _ _ (λ m. (w : _) → ⟦<(A, B) as Deserialize<'de, R>>⟧.reads s.human R.lends m w
        → A.same v.0 w.0 × B.same v.1 w.1) (tuple_row s _ _
        (rows_cons s _ _ (λ m. Only (A.reads s.human R.lends) A.same m v.0) _ (A.only s v.0 fits.0)
        (rows_cons s _ _ (λ m. Only (B.reads s.human R.lends) B.same m v.1) _ (B.only s v.1 fits.1) (rows_none s))))
        (λ m q w r. row_both _ _ _ m q r (item_only (A.reads s.human R.lends) A.same v.0 w.0 _ _ _ (last_only (B.reads s.human R.lends) B.same v.1 w.1))) };
}

impl<A: Serialize, B: Serialize> NeverNil for (A, B) {
    ghost never_nil = { λ s v. tuple_other s (A.data_of v.0 s.human ∷ B.data_of v.1 s.human ∷ []) };
}

impl<'de, R: ReadSlice<'de>, A: ContentOrd<'de, R>, B: ContentOrd<'de, R>> ContentOrd<'de, R>
    for (A, B) {
    ghost equal = { λ v w h. (then_tied _ _ (A.equal v.0 w.0 h.0) (B.equal v.1 w.1 h.1)) };
}

impl<
    'de,
    R: ReadSlice<'de>,
    A: RoundTrip<'de, R>,
    B: RoundTrip<'de, R>,
    D: RoundTrip<'de, R>,
> RoundTrip<'de, R> for (A, B, D) {
    ghost borrows = { (A.borrows || (B.borrows || D.borrows)) };

    ghost has_data = { λ human v. tuple_some _ (parts_cons _ _ (A.has_data human v.0)
        (parts_cons _ _ (B.has_data human v.1) (parts_cons _ _ (D.has_data human v.2) parts_none))) };

    ghost round = { λ lent s v fits. tuple_row s _ _ (rows_cons s _ _ (λ m. A.reads s.human R.lends m v.0) _
        (A.round (first_lent A.borrows (B.borrows || D.borrows) R.lends lent) s v.0 fits.0)
        (rows_cons s _ _ (λ m. B.reads s.human R.lends m v.1) _
        (B.round (first_lent B.borrows D.borrows R.lends (second_lent A.borrows (B.borrows || D.borrows) R.lends lent)) s v.1 fits.1)
        (rows_cons s _ _ (λ m. D.reads s.human R.lends m v.2) _
        (D.round (second_lent B.borrows D.borrows R.lends (second_lent A.borrows (B.borrows || D.borrows) R.lends lent)) s v.2 fits.2) (rows_none s)))) };

    ghost same = { λ v w. A.same v.0 w.0 × B.same v.1 w.1 × D.same v.2 w.2 };

    ghost alike = { λ human v w h i. tuple_of (A.alike human v.0 w.0 h.0 i ∷ B.alike human v.1 w.1 h.1 i ∷ D.alike human v.2 w.2 h.2 i ∷ []) };

    ghost only = { λ s v fits. lowers_then s _ _ (λ m. (w : _) → ⟦<(A, B, D) as Deserialize<'de, R>>⟧.reads s.human R.lends m w
        → A.same v.0 w.0 × B.same v.1 w.1 × D.same v.2 w.2)
        (tuple_row s _ _ (rows_cons s _ _ (λ m. Only (A.reads s.human R.lends) A.same m v.0) _ (A.only s v.0 fits.0)
        (rows_cons s _ _ (λ m. Only (B.reads s.human R.lends) B.same m v.1) _ (B.only s v.1 fits.1)
        (rows_cons s _ _ (λ m. Only (D.reads s.human R.lends) D.same m v.2) _ (D.only s v.2 fits.2) (rows_none s)))))
        (λ m q w r. row_both _ _ _ m q r (λ ks i j. let x = item_only (A.reads s.human R.lends) A.same v.0 w.0 _ _ _
        (item_only (B.reads s.human R.lends) B.same v.1 w.1 _ _ _ (last_only (D.reads s.human R.lends) D.same v.2 w.2)) ks i j in (x.0, x.1.0, x.1.1))) };
}

impl<A: Serialize, B: Serialize, D: Serialize> NeverNil for (A, B, D) {
    ghost never_nil = { λ s v. tuple_other s (A.data_of v.0 s.human ∷ B.data_of v.1 s.human ∷ D.data_of v.2 s.human ∷ []) };
}

impl<
    'de,
    R: ReadSlice<'de>,
    A: ContentOrd<'de, R>,
    B: ContentOrd<'de, R>,
    D: ContentOrd<'de, R>,
> ContentOrd<'de, R> for (A, B, D) {
    ghost equal = { λ v w h. (then_tied _ _ (then_tied _ _ (A.equal v.0 w.0 h.0) (B.equal v.1 w.1 h.1)) (D.equal v.2 w.2 h.2)) };
}

impl<
    'de,
    R: ReadSlice<'de>,
    A: RoundTrip<'de, R>,
    B: RoundTrip<'de, R>,
    D: RoundTrip<'de, R>,
    E: RoundTrip<'de, R>,
> RoundTrip<'de, R> for (A, B, D, E) {
    ghost borrows = { (A.borrows || (B.borrows || (D.borrows || E.borrows))) };

    ghost has_data = { λ human v. tuple_some _ (parts_cons _ _ (A.has_data human v.0)
        (parts_cons _ _ (B.has_data human v.1) (parts_cons _ _ (D.has_data human v.2) (parts_cons _ _ (E.has_data human v.3) parts_none)))) };

    ghost round = { λ lent s v fits. tuple_row s _ _ (rows_cons s _ _ (λ m. A.reads s.human R.lends m v.0) _
        (A.round (first_lent A.borrows (B.borrows || (D.borrows || E.borrows)) R.lends lent) s v.0 fits.0)
        (rows_cons s _ _ (λ m. B.reads s.human R.lends m v.1) _
        (B.round (first_lent B.borrows (D.borrows || E.borrows) R.lends (second_lent A.borrows (B.borrows || (D.borrows || E.borrows)) R.lends lent)) s v.1
        fits.1) (rows_cons s _ _ (λ m. D.reads s.human R.lends m v.2) _
        (D.round (first_lent D.borrows E.borrows R.lends (second_lent B.borrows (D.borrows || E.borrows) R.lends
        (second_lent A.borrows (B.borrows || (D.borrows || E.borrows)) R.lends lent))) s v.2 fits.2)
        (rows_cons s _ _ (λ m. E.reads s.human R.lends m v.3) _
        (E.round (second_lent D.borrows E.borrows R.lends (second_lent B.borrows (D.borrows || E.borrows) R.lends
        (second_lent A.borrows (B.borrows || (D.borrows || E.borrows)) R.lends lent))) s v.3 fits.3) (rows_none s))))) };

    ghost same = { λ v w. A.same v.0 w.0 × B.same v.1 w.1 × D.same v.2 w.2 × E.same v.3 w.3 };

    ghost alike = { λ human v w h i. tuple_of (A.alike human v.0 w.0 h.0 i ∷ B.alike human v.1 w.1 h.1 i ∷ D.alike human v.2 w.2 h.2 i
        ∷ E.alike human v.3 w.3 h.3 i ∷ []) };

    ghost only = { λ s v fits. lowers_then s _ _ (λ m. (w : _) → ⟦<(A, B, D, E) as Deserialize<'de, R>>⟧.reads s.human R.lends m w
        → A.same v.0 w.0 × B.same v.1 w.1 × D.same v.2 w.2 × E.same v.3 w.3)
        (tuple_row s _ _ (rows_cons s _ _ (λ m. Only (A.reads s.human R.lends) A.same m v.0) _ (A.only s v.0 fits.0)
        (rows_cons s _ _ (λ m. Only (B.reads s.human R.lends) B.same m v.1) _ (B.only s v.1 fits.1)
        (rows_cons s _ _ (λ m. Only (D.reads s.human R.lends) D.same m v.2) _ (D.only s v.2 fits.2)
        (rows_cons s _ _ (λ m. Only (E.reads s.human R.lends) E.same m v.3) _ (E.only s v.3 fits.3) (rows_none s))))))
        (λ m q w r. row_both _ _ _ m q r (λ ks i j. let x = item_only (A.reads s.human R.lends) A.same v.0 w.0 _ _ _
        (item_only (B.reads s.human R.lends) B.same v.1 w.1 _ _ _
        (item_only (D.reads s.human R.lends) D.same v.2 w.2 _ _ _ (last_only (E.reads s.human R.lends) E.same v.3 w.3))) ks i j
        in (x.0, x.1.0, x.1.1.0, x.1.1.1))) };
}

impl<A: Serialize, B: Serialize, D: Serialize, E: Serialize> NeverNil for (A, B, D, E) {
    ghost never_nil = { λ s v. tuple_other s (A.data_of v.0 s.human ∷ B.data_of v.1 s.human ∷ D.data_of v.2 s.human ∷ E.data_of v.3 s.human ∷ []) };
}

impl<
    'de,
    R: ReadSlice<'de>,
    A: ContentOrd<'de, R>,
    B: ContentOrd<'de, R>,
    D: ContentOrd<'de, R>,
    E: ContentOrd<'de, R>,
> ContentOrd<'de, R> for (A, B, D, E) {
    ghost equal = { λ v w h. (then_tied _ _ (then_tied _ _ (then_tied _ _ (A.equal v.0 w.0 h.0) (B.equal v.1 w.1 h.1)) (D.equal v.2 w.2 h.2))
        (E.equal v.3 w.3 h.3)) };
}

impl<
    'de,
    R: ReadSlice<'de>,
    A: RoundTrip<'de, R>,
    B: RoundTrip<'de, R>,
    D: RoundTrip<'de, R>,
    E: RoundTrip<'de, R>,
    F: RoundTrip<'de, R>,
> RoundTrip<'de, R> for (A, B, D, E, F) {
    ghost borrows = { (A.borrows || (B.borrows || (D.borrows || (E.borrows || F.borrows)))) };

    ghost has_data = { λ human v. tuple_some _ (parts_cons _ _ (A.has_data human v.0)
        (parts_cons _ _ (B.has_data human v.1) (parts_cons _ _ (D.has_data human v.2)
        (parts_cons _ _ (E.has_data human v.3) (parts_cons _ _ (F.has_data human v.4) parts_none))))) };

    ghost round = { λ lent s v fits. tuple_row s _ _ (rows_cons s _ _ (λ m. A.reads s.human R.lends m v.0) _
        (A.round (first_lent A.borrows (B.borrows || (D.borrows || (E.borrows || F.borrows))) R.lends lent) s v.0 fits.0)
        (rows_cons s _ _ (λ m. B.reads s.human R.lends m v.1) _
        (B.round (first_lent B.borrows (D.borrows || (E.borrows || F.borrows)) R.lends
        (second_lent A.borrows (B.borrows || (D.borrows || (E.borrows || F.borrows))) R.lends lent)) s v.1 fits.1)
        (rows_cons s _ _ (λ m. D.reads s.human R.lends m v.2) _
        (D.round (first_lent D.borrows (E.borrows || F.borrows) R.lends
        (second_lent B.borrows (D.borrows || (E.borrows || F.borrows)) R.lends
        (second_lent A.borrows (B.borrows || (D.borrows || (E.borrows || F.borrows))) R.lends lent))) s v.2 fits.2)
        (rows_cons s _ _ (λ m. E.reads s.human R.lends m v.3) _
        (E.round (first_lent E.borrows F.borrows R.lends (second_lent D.borrows (E.borrows || F.borrows) R.lends
        (second_lent B.borrows (D.borrows || (E.borrows || F.borrows)) R.lends
        (second_lent A.borrows (B.borrows || (D.borrows || (E.borrows || F.borrows))) R.lends lent)))) s v.3 fits.3)
        (rows_cons s _ _ (λ m. F.reads s.human R.lends m v.4) _
        (F.round (second_lent E.borrows F.borrows R.lends (second_lent D.borrows (E.borrows || F.borrows) R.lends
        (second_lent B.borrows (D.borrows || (E.borrows || F.borrows)) R.lends
        (second_lent A.borrows (B.borrows || (D.borrows || (E.borrows || F.borrows))) R.lends lent)))) s v.4 fits.4) (rows_none s)))))) };

    ghost same = { λ v w. A.same v.0 w.0 × B.same v.1 w.1 × D.same v.2 w.2 × E.same v.3 w.3 × F.same v.4 w.4 };

    ghost alike = { λ human v w h i. tuple_of (A.alike human v.0 w.0 h.0 i ∷ B.alike human v.1 w.1 h.1 i ∷ D.alike human v.2 w.2 h.2 i
        ∷ E.alike human v.3 w.3 h.3 i ∷ F.alike human v.4 w.4 h.4 i ∷ []) };

    ghost only = { λ s v fits. lowers_then s _ _ (λ m. (w : _) → ⟦<(A, B, D, E, F) as Deserialize<'de, R>>⟧.reads s.human R.lends m w
        → A.same v.0 w.0 × B.same v.1 w.1 × D.same v.2 w.2 × E.same v.3 w.3 × F.same v.4 w.4)
        (tuple_row s _ _ (rows_cons s _ _ (λ m. Only (A.reads s.human R.lends) A.same m v.0) _ (A.only s v.0 fits.0)
        (rows_cons s _ _ (λ m. Only (B.reads s.human R.lends) B.same m v.1) _ (B.only s v.1 fits.1)
        (rows_cons s _ _ (λ m. Only (D.reads s.human R.lends) D.same m v.2) _ (D.only s v.2 fits.2)
        (rows_cons s _ _ (λ m. Only (E.reads s.human R.lends) E.same m v.3) _ (E.only s v.3 fits.3)
        (rows_cons s _ _ (λ m. Only (F.reads s.human R.lends) F.same m v.4) _ (F.only s v.4 fits.4) (rows_none s)))))))
        (λ m q w r. row_both _ _ _ m q r (λ ks i j. let x = item_only (A.reads s.human R.lends) A.same v.0 w.0 _ _ _
        (item_only (B.reads s.human R.lends) B.same v.1 w.1 _ _ _
        (item_only (D.reads s.human R.lends) D.same v.2 w.2 _ _ _
        (item_only (E.reads s.human R.lends) E.same v.3 w.3 _ _ _ (last_only (F.reads s.human R.lends) F.same v.4 w.4)))) ks i j
        in (x.0, x.1.0, x.1.1.0, x.1.1.1.0, x.1.1.1.1))) };
}

impl<A: Serialize, B: Serialize, D: Serialize, E: Serialize, F: Serialize> NeverNil
    for (A, B, D, E, F) {
    ghost never_nil = { λ s v. tuple_other s (A.data_of v.0 s.human ∷ B.data_of v.1 s.human ∷ D.data_of v.2 s.human ∷ E.data_of v.3 s.human
        ∷ F.data_of v.4 s.human ∷ []) };
}

impl<
    'de,
    R: ReadSlice<'de>,
    A: ContentOrd<'de, R>,
    B: ContentOrd<'de, R>,
    D: ContentOrd<'de, R>,
    E: ContentOrd<'de, R>,
    F: ContentOrd<'de, R>,
> ContentOrd<'de, R> for (A, B, D, E, F) {
    ghost equal = { λ v w h. (then_tied _ _ (then_tied _ _ (then_tied _ _ (then_tied _ _ (A.equal v.0 w.0 h.0) (B.equal v.1 w.1 h.1)) (D.equal v.2 w.2 h.2))
        (E.equal v.3 w.3 h.3)) (F.equal v.4 w.4 h.4)) };
}

impl<
    'de,
    R: ReadSlice<'de>,
    A: RoundTrip<'de, R>,
    B: RoundTrip<'de, R>,
    D: RoundTrip<'de, R>,
    E: RoundTrip<'de, R>,
    F: RoundTrip<'de, R>,
    G: RoundTrip<'de, R>,
> RoundTrip<'de, R> for (A, B, D, E, F, G) {
    ghost borrows = { (A.borrows || (B.borrows || (D.borrows || (E.borrows || (F.borrows || G.borrows))))) };

    ghost has_data = { λ human v. tuple_some _ (parts_cons _ _ (A.has_data human v.0)
        (parts_cons _ _ (B.has_data human v.1) (parts_cons _ _ (D.has_data human v.2)
        (parts_cons _ _ (E.has_data human v.3) (parts_cons _ _ (F.has_data human v.4) (parts_cons _ _ (G.has_data human v.5) parts_none)))))) };

    ghost round = { λ lent s v fits. tuple_row s _ _ (rows_cons s _ _ (λ m. A.reads s.human R.lends m v.0) _
        (A.round (first_lent A.borrows (B.borrows || (D.borrows || (E.borrows || (F.borrows || G.borrows)))) R.lends lent) s v.0 fits.0)
        (rows_cons s _ _ (λ m. B.reads s.human R.lends m v.1) _
        (B.round (first_lent B.borrows (D.borrows || (E.borrows || (F.borrows || G.borrows))) R.lends
        (second_lent A.borrows (B.borrows || (D.borrows || (E.borrows || (F.borrows || G.borrows)))) R.lends lent)) s v.1 fits.1)
        (rows_cons s _ _ (λ m. D.reads s.human R.lends m v.2) _
        (D.round (first_lent D.borrows (E.borrows || (F.borrows || G.borrows)) R.lends
        (second_lent B.borrows (D.borrows || (E.borrows || (F.borrows || G.borrows))) R.lends
        (second_lent A.borrows (B.borrows || (D.borrows || (E.borrows || (F.borrows || G.borrows)))) R.lends lent))) s v.2 fits.2)
        (rows_cons s _ _ (λ m. E.reads s.human R.lends m v.3) _
        (E.round (first_lent E.borrows (F.borrows || G.borrows) R.lends
        (second_lent D.borrows (E.borrows || (F.borrows || G.borrows)) R.lends
        (second_lent B.borrows (D.borrows || (E.borrows || (F.borrows || G.borrows))) R.lends
        (second_lent A.borrows (B.borrows || (D.borrows || (E.borrows || (F.borrows || G.borrows)))) R.lends lent)))) s v.3 fits.3)
        (rows_cons s _ _ (λ m. F.reads s.human R.lends m v.4) _
        (F.round (first_lent F.borrows G.borrows R.lends (second_lent E.borrows (F.borrows || G.borrows) R.lends
        (second_lent D.borrows (E.borrows || (F.borrows || G.borrows)) R.lends
        (second_lent B.borrows (D.borrows || (E.borrows || (F.borrows || G.borrows))) R.lends
        (second_lent A.borrows (B.borrows || (D.borrows || (E.borrows || (F.borrows || G.borrows)))) R.lends lent))))) s v.4 fits.4)
        (rows_cons s _ _ (λ m. G.reads s.human R.lends m v.5) _
        (G.round (second_lent F.borrows G.borrows R.lends (second_lent E.borrows (F.borrows || G.borrows) R.lends
        (second_lent D.borrows (E.borrows || (F.borrows || G.borrows)) R.lends
        (second_lent B.borrows (D.borrows || (E.borrows || (F.borrows || G.borrows))) R.lends
        (second_lent A.borrows (B.borrows || (D.borrows || (E.borrows || (F.borrows || G.borrows)))) R.lends lent))))) s v.5 fits.5) (rows_none s))))))) };

    ghost same = { λ v w. A.same v.0 w.0 × B.same v.1 w.1 × D.same v.2 w.2 × E.same v.3 w.3 × F.same v.4 w.4 × G.same v.5 w.5 };

    ghost alike = { λ human v w h i. tuple_of (A.alike human v.0 w.0 h.0 i ∷ B.alike human v.1 w.1 h.1 i ∷ D.alike human v.2 w.2 h.2 i
        ∷ E.alike human v.3 w.3 h.3 i ∷ F.alike human v.4 w.4 h.4 i ∷ G.alike human v.5 w.5 h.5 i ∷ []) };

    ghost only = { λ s v fits. lowers_then s _ _ (λ m. (w : _) → ⟦<(A, B, D, E, F, G) as Deserialize<'de, R>>⟧.reads s.human R.lends m w
        → A.same v.0 w.0 × B.same v.1 w.1 × D.same v.2 w.2 × E.same v.3 w.3 × F.same v.4 w.4 × G.same v.5 w.5)
        (tuple_row s _ _ (rows_cons s _ _ (λ m. Only (A.reads s.human R.lends) A.same m v.0) _ (A.only s v.0 fits.0)
        (rows_cons s _ _ (λ m. Only (B.reads s.human R.lends) B.same m v.1) _ (B.only s v.1 fits.1)
        (rows_cons s _ _ (λ m. Only (D.reads s.human R.lends) D.same m v.2) _ (D.only s v.2 fits.2)
        (rows_cons s _ _ (λ m. Only (E.reads s.human R.lends) E.same m v.3) _ (E.only s v.3 fits.3)
        (rows_cons s _ _ (λ m. Only (F.reads s.human R.lends) F.same m v.4) _ (F.only s v.4 fits.4)
        (rows_cons s _ _ (λ m. Only (G.reads s.human R.lends) G.same m v.5) _ (G.only s v.5 fits.5) (rows_none s))))))))
        (λ m q w r. row_both _ _ _ m q r (λ ks i j. let x = item_only (A.reads s.human R.lends) A.same v.0 w.0 _ _ _
        (item_only (B.reads s.human R.lends) B.same v.1 w.1 _ _ _
        (item_only (D.reads s.human R.lends) D.same v.2 w.2 _ _ _
        (item_only (E.reads s.human R.lends) E.same v.3 w.3 _ _ _
        (item_only (F.reads s.human R.lends) F.same v.4 w.4 _ _ _ (last_only (G.reads s.human R.lends) G.same v.5 w.5))))) ks i j
        in (x.0, x.1.0, x.1.1.0, x.1.1.1.0, x.1.1.1.1.0, x.1.1.1.1.1))) };
}

impl<A: Serialize, B: Serialize, D: Serialize, E: Serialize, F: Serialize, G: Serialize> NeverNil
    for (A, B, D, E, F, G) {
    ghost never_nil = { λ s v. tuple_other s (A.data_of v.0 s.human ∷ B.data_of v.1 s.human ∷ D.data_of v.2 s.human ∷ E.data_of v.3 s.human
        ∷ F.data_of v.4 s.human ∷ G.data_of v.5 s.human ∷ []) };
}

impl<
    'de,
    R: ReadSlice<'de>,
    A: ContentOrd<'de, R>,
    B: ContentOrd<'de, R>,
    D: ContentOrd<'de, R>,
    E: ContentOrd<'de, R>,
    F: ContentOrd<'de, R>,
    G: ContentOrd<'de, R>,
> ContentOrd<'de, R> for (A, B, D, E, F, G) {
    ghost equal = { λ v w h. (then_tied _ _ (then_tied _ _
        (then_tied _ _ (then_tied _ _ (then_tied _ _ (A.equal v.0 w.0 h.0) (B.equal v.1 w.1 h.1)) (D.equal v.2 w.2 h.2)) (E.equal v.3 w.3 h.3))
        (F.equal v.4 w.4 h.4)) (G.equal v.5 w.5 h.5)) };
}

impl<
    'de,
    R: ReadSlice<'de>,
    A: RoundTrip<'de, R>,
    B: RoundTrip<'de, R>,
    D: RoundTrip<'de, R>,
    E: RoundTrip<'de, R>,
    F: RoundTrip<'de, R>,
    G: RoundTrip<'de, R>,
    H: RoundTrip<'de, R>,
> RoundTrip<'de, R> for (A, B, D, E, F, G, H) {
    ghost borrows = { (A.borrows || (B.borrows || (D.borrows || (E.borrows || (F.borrows || (G.borrows || H.borrows)))))) };

    ghost has_data = { λ human v. tuple_some _ (parts_cons _ _ (A.has_data human v.0)
        (parts_cons _ _ (B.has_data human v.1) (parts_cons _ _ (D.has_data human v.2)
        (parts_cons _ _ (E.has_data human v.3) (parts_cons _ _ (F.has_data human v.4)
        (parts_cons _ _ (G.has_data human v.5) (parts_cons _ _ (H.has_data human v.6) parts_none))))))) };

    ghost round = { λ lent s v fits. tuple_row s _ _ (rows_cons s _ _ (λ m. A.reads s.human R.lends m v.0) _
        (A.round (first_lent A.borrows (B.borrows || (D.borrows || (E.borrows || (F.borrows || (G.borrows || H.borrows))))) R.lends lent) s v.0 fits.0)
        (rows_cons s _ _ (λ m. B.reads s.human R.lends m v.1) _
        (B.round (first_lent B.borrows (D.borrows || (E.borrows || (F.borrows || (G.borrows || H.borrows)))) R.lends
        (second_lent A.borrows (B.borrows || (D.borrows || (E.borrows || (F.borrows || (G.borrows || H.borrows))))) R.lends lent)) s v.1 fits.1)
        (rows_cons s _ _ (λ m. D.reads s.human R.lends m v.2) _
        (D.round (first_lent D.borrows (E.borrows || (F.borrows || (G.borrows || H.borrows))) R.lends
        (second_lent B.borrows (D.borrows || (E.borrows || (F.borrows || (G.borrows || H.borrows)))) R.lends
        (second_lent A.borrows (B.borrows || (D.borrows || (E.borrows || (F.borrows || (G.borrows || H.borrows))))) R.lends lent))) s v.2 fits.2)
        (rows_cons s _ _ (λ m. E.reads s.human R.lends m v.3) _
        (E.round (first_lent E.borrows (F.borrows || (G.borrows || H.borrows)) R.lends
        (second_lent D.borrows (E.borrows || (F.borrows || (G.borrows || H.borrows))) R.lends
        (second_lent B.borrows (D.borrows || (E.borrows || (F.borrows || (G.borrows || H.borrows)))) R.lends
        (second_lent A.borrows (B.borrows || (D.borrows || (E.borrows || (F.borrows || (G.borrows || H.borrows))))) R.lends lent)))) s v.3 fits.3)
        (rows_cons s _ _ (λ m. F.reads s.human R.lends m v.4) _
        (F.round (first_lent F.borrows (G.borrows || H.borrows) R.lends
        (second_lent E.borrows (F.borrows || (G.borrows || H.borrows)) R.lends
        (second_lent D.borrows (E.borrows || (F.borrows || (G.borrows || H.borrows))) R.lends
        (second_lent B.borrows (D.borrows || (E.borrows || (F.borrows || (G.borrows || H.borrows)))) R.lends
        (second_lent A.borrows (B.borrows || (D.borrows || (E.borrows || (F.borrows || (G.borrows || H.borrows))))) R.lends lent))))) s v.4 fits.4)
        (rows_cons s _ _ (λ m. G.reads s.human R.lends m v.5) _
        (G.round (first_lent G.borrows H.borrows R.lends (second_lent F.borrows (G.borrows || H.borrows) R.lends
        (second_lent E.borrows (F.borrows || (G.borrows || H.borrows)) R.lends
        (second_lent D.borrows (E.borrows || (F.borrows || (G.borrows || H.borrows))) R.lends
        (second_lent B.borrows (D.borrows || (E.borrows || (F.borrows || (G.borrows || H.borrows)))) R.lends
        (second_lent A.borrows (B.borrows || (D.borrows || (E.borrows || (F.borrows || (G.borrows || H.borrows))))) R.lends lent)))))) s v.5 fits.5)
        (rows_cons s _ _ (λ m. H.reads s.human R.lends m v.6) _
        (H.round (second_lent G.borrows H.borrows R.lends (second_lent F.borrows (G.borrows || H.borrows) R.lends
        (second_lent E.borrows (F.borrows || (G.borrows || H.borrows)) R.lends
        (second_lent D.borrows (E.borrows || (F.borrows || (G.borrows || H.borrows))) R.lends
        (second_lent B.borrows (D.borrows || (E.borrows || (F.borrows || (G.borrows || H.borrows)))) R.lends
        (second_lent A.borrows (B.borrows || (D.borrows || (E.borrows || (F.borrows || (G.borrows || H.borrows))))) R.lends lent)))))) s v.6 fits.6)
        (rows_none s)))))))) };

    ghost same = { λ v w. A.same v.0 w.0 × B.same v.1 w.1 × D.same v.2 w.2 × E.same v.3 w.3 × F.same v.4 w.4 × G.same v.5 w.5 × H.same v.6 w.6 };

    ghost alike = { λ human v w h i. tuple_of (A.alike human v.0 w.0 h.0 i ∷ B.alike human v.1 w.1 h.1 i ∷ D.alike human v.2 w.2 h.2 i
        ∷ E.alike human v.3 w.3 h.3 i ∷ F.alike human v.4 w.4 h.4 i ∷ G.alike human v.5 w.5 h.5 i ∷ H.alike human v.6 w.6 h.6 i ∷ []) };

    ghost only = { λ s v fits. lowers_then s _ _ (λ m. (w : _) → ⟦<(A, B, D, E, F, G, H) as Deserialize<'de, R>>⟧.reads s.human R.lends m w
        → A.same v.0 w.0 × B.same v.1 w.1 × D.same v.2 w.2 × E.same v.3 w.3 × F.same v.4 w.4 × G.same v.5 w.5 × H.same v.6 w.6)
        (tuple_row s _ _ (rows_cons s _ _ (λ m. Only (A.reads s.human R.lends) A.same m v.0) _ (A.only s v.0 fits.0)
        (rows_cons s _ _ (λ m. Only (B.reads s.human R.lends) B.same m v.1) _ (B.only s v.1 fits.1)
        (rows_cons s _ _ (λ m. Only (D.reads s.human R.lends) D.same m v.2) _ (D.only s v.2 fits.2)
        (rows_cons s _ _ (λ m. Only (E.reads s.human R.lends) E.same m v.3) _ (E.only s v.3 fits.3)
        (rows_cons s _ _ (λ m. Only (F.reads s.human R.lends) F.same m v.4) _ (F.only s v.4 fits.4)
        (rows_cons s _ _ (λ m. Only (G.reads s.human R.lends) G.same m v.5) _ (G.only s v.5 fits.5)
        (rows_cons s _ _ (λ m. Only (H.reads s.human R.lends) H.same m v.6) _ (H.only s v.6 fits.6) (rows_none s)))))))))
        (λ m q w r. row_both _ _ _ m q r (λ ks i j. let x = item_only (A.reads s.human R.lends) A.same v.0 w.0 _ _ _
        (item_only (B.reads s.human R.lends) B.same v.1 w.1 _ _ _
        (item_only (D.reads s.human R.lends) D.same v.2 w.2 _ _ _
        (item_only (E.reads s.human R.lends) E.same v.3 w.3 _ _ _
        (item_only (F.reads s.human R.lends) F.same v.4 w.4 _ _ _
        (item_only (G.reads s.human R.lends) G.same v.5 w.5 _ _ _ (last_only (H.reads s.human R.lends) H.same v.6 w.6)))))) ks i j
        in (x.0, x.1.0, x.1.1.0, x.1.1.1.0, x.1.1.1.1.0, x.1.1.1.1.1.0, x.1.1.1.1.1.1))) };
}

impl<
    A: Serialize,
    B: Serialize,
    D: Serialize,
    E: Serialize,
    F: Serialize,
    G: Serialize,
    H: Serialize,
> NeverNil for (A, B, D, E, F, G, H) {
    ghost never_nil = { λ s v. tuple_other s (A.data_of v.0 s.human ∷ B.data_of v.1 s.human ∷ D.data_of v.2 s.human ∷ E.data_of v.3 s.human
        ∷ F.data_of v.4 s.human ∷ G.data_of v.5 s.human ∷ H.data_of v.6 s.human ∷ []) };
}

impl<
    'de,
    R: ReadSlice<'de>,
    A: ContentOrd<'de, R>,
    B: ContentOrd<'de, R>,
    D: ContentOrd<'de, R>,
    E: ContentOrd<'de, R>,
    F: ContentOrd<'de, R>,
    G: ContentOrd<'de, R>,
    H: ContentOrd<'de, R>,
> ContentOrd<'de, R> for (A, B, D, E, F, G, H) {
    ghost equal = { λ v w h. (then_tied _ _ (then_tied _ _
        (then_tied _ _ (then_tied _ _ (then_tied _ _ (then_tied _ _ (A.equal v.0 w.0 h.0) (B.equal v.1 w.1 h.1)) (D.equal v.2 w.2 h.2))
        (E.equal v.3 w.3 h.3)) (F.equal v.4 w.4 h.4)) (G.equal v.5 w.5 h.5)) (H.equal v.6 w.6 h.6)) };
}

impl<
    'de,
    R: ReadSlice<'de>,
    A: RoundTrip<'de, R>,
    B: RoundTrip<'de, R>,
    D: RoundTrip<'de, R>,
    E: RoundTrip<'de, R>,
    F: RoundTrip<'de, R>,
    G: RoundTrip<'de, R>,
    H: RoundTrip<'de, R>,
    I: RoundTrip<'de, R>,
> RoundTrip<'de, R> for (A, B, D, E, F, G, H, I) {
    ghost borrows = { (A.borrows || (B.borrows || (D.borrows || (E.borrows || (F.borrows || (G.borrows || (H.borrows || I.borrows))))))) };

    ghost has_data = { λ human v. tuple_some _ (parts_cons _ _ (A.has_data human v.0)
        (parts_cons _ _ (B.has_data human v.1) (parts_cons _ _ (D.has_data human v.2)
        (parts_cons _ _ (E.has_data human v.3) (parts_cons _ _ (F.has_data human v.4)
        (parts_cons _ _ (G.has_data human v.5) (parts_cons _ _ (H.has_data human v.6) (parts_cons _ _ (I.has_data human v.7) parts_none)))))))) };

    ghost round = { λ lent s v fits. tuple_row s _ _ (rows_cons s _ _ (λ m. A.reads s.human R.lends m v.0) _
        (A.round (first_lent A.borrows (B.borrows || (D.borrows || (E.borrows || (F.borrows || (G.borrows || (H.borrows || I.borrows)))))) R.lends lent) s
        v.0 fits.0) (rows_cons s _ _ (λ m. B.reads s.human R.lends m v.1) _
        (B.round (first_lent B.borrows (D.borrows || (E.borrows || (F.borrows || (G.borrows || (H.borrows || I.borrows))))) R.lends
        (second_lent A.borrows (B.borrows || (D.borrows || (E.borrows || (F.borrows || (G.borrows || (H.borrows || I.borrows)))))) R.lends lent)) s v.1
        fits.1) (rows_cons s _ _ (λ m. D.reads s.human R.lends m v.2) _
        (D.round (first_lent D.borrows (E.borrows || (F.borrows || (G.borrows || (H.borrows || I.borrows)))) R.lends
        (second_lent B.borrows (D.borrows || (E.borrows || (F.borrows || (G.borrows || (H.borrows || I.borrows))))) R.lends
        (second_lent A.borrows (B.borrows || (D.borrows || (E.borrows || (F.borrows || (G.borrows || (H.borrows || I.borrows)))))) R.lends lent))) s v.2
        fits.2) (rows_cons s _ _ (λ m. E.reads s.human R.lends m v.3) _
        (E.round (first_lent E.borrows (F.borrows || (G.borrows || (H.borrows || I.borrows))) R.lends
        (second_lent D.borrows (E.borrows || (F.borrows || (G.borrows || (H.borrows || I.borrows)))) R.lends
        (second_lent B.borrows (D.borrows || (E.borrows || (F.borrows || (G.borrows || (H.borrows || I.borrows))))) R.lends
        (second_lent A.borrows (B.borrows || (D.borrows || (E.borrows || (F.borrows || (G.borrows || (H.borrows || I.borrows)))))) R.lends lent)))) s v.3
        fits.3) (rows_cons s _ _ (λ m. F.reads s.human R.lends m v.4) _
        (F.round (first_lent F.borrows (G.borrows || (H.borrows || I.borrows)) R.lends
        (second_lent E.borrows (F.borrows || (G.borrows || (H.borrows || I.borrows))) R.lends
        (second_lent D.borrows (E.borrows || (F.borrows || (G.borrows || (H.borrows || I.borrows)))) R.lends
        (second_lent B.borrows (D.borrows || (E.borrows || (F.borrows || (G.borrows || (H.borrows || I.borrows))))) R.lends
        (second_lent A.borrows (B.borrows || (D.borrows || (E.borrows || (F.borrows || (G.borrows || (H.borrows || I.borrows)))))) R.lends lent))))) s v.4
        fits.4) (rows_cons s _ _ (λ m. G.reads s.human R.lends m v.5) _
        (G.round (first_lent G.borrows (H.borrows || I.borrows) R.lends
        (second_lent F.borrows (G.borrows || (H.borrows || I.borrows)) R.lends
        (second_lent E.borrows (F.borrows || (G.borrows || (H.borrows || I.borrows))) R.lends
        (second_lent D.borrows (E.borrows || (F.borrows || (G.borrows || (H.borrows || I.borrows)))) R.lends
        (second_lent B.borrows (D.borrows || (E.borrows || (F.borrows || (G.borrows || (H.borrows || I.borrows))))) R.lends
        (second_lent A.borrows (B.borrows || (D.borrows || (E.borrows || (F.borrows || (G.borrows || (H.borrows || I.borrows)))))) R.lends lent)))))) s v.5
        fits.5) (rows_cons s _ _ (λ m. H.reads s.human R.lends m v.6) _
        (H.round (first_lent H.borrows I.borrows R.lends (second_lent G.borrows (H.borrows || I.borrows) R.lends
        (second_lent F.borrows (G.borrows || (H.borrows || I.borrows)) R.lends
        (second_lent E.borrows (F.borrows || (G.borrows || (H.borrows || I.borrows))) R.lends
        (second_lent D.borrows (E.borrows || (F.borrows || (G.borrows || (H.borrows || I.borrows)))) R.lends
        (second_lent B.borrows (D.borrows || (E.borrows || (F.borrows || (G.borrows || (H.borrows || I.borrows))))) R.lends
        (second_lent A.borrows (B.borrows || (D.borrows || (E.borrows || (F.borrows || (G.borrows || (H.borrows || I.borrows)))))) R.lends lent))))))) s v.6
        fits.6) (rows_cons s _ _ (λ m. I.reads s.human R.lends m v.7) _
        (I.round (second_lent H.borrows I.borrows R.lends (second_lent G.borrows (H.borrows || I.borrows) R.lends
        (second_lent F.borrows (G.borrows || (H.borrows || I.borrows)) R.lends
        (second_lent E.borrows (F.borrows || (G.borrows || (H.borrows || I.borrows))) R.lends
        (second_lent D.borrows (E.borrows || (F.borrows || (G.borrows || (H.borrows || I.borrows)))) R.lends
        (second_lent B.borrows (D.borrows || (E.borrows || (F.borrows || (G.borrows || (H.borrows || I.borrows))))) R.lends
        (second_lent A.borrows (B.borrows || (D.borrows || (E.borrows || (F.borrows || (G.borrows || (H.borrows || I.borrows)))))) R.lends lent))))))) s v.7
        fits.7) (rows_none s))))))))) };

    ghost same = { λ v w. A.same v.0 w.0 × B.same v.1 w.1 × D.same v.2 w.2 × E.same v.3 w.3 × F.same v.4 w.4 × G.same v.5 w.5 × H.same v.6 w.6
        × I.same v.7 w.7 };

    ghost alike = { λ human v w h i. tuple_of (A.alike human v.0 w.0 h.0 i ∷ B.alike human v.1 w.1 h.1 i ∷ D.alike human v.2 w.2 h.2 i
        ∷ E.alike human v.3 w.3 h.3 i ∷ F.alike human v.4 w.4 h.4 i ∷ G.alike human v.5 w.5 h.5 i ∷ H.alike human v.6 w.6 h.6 i
        ∷ I.alike human v.7 w.7 h.7 i ∷ []) };

    ghost only = { λ s v fits. lowers_then s _ _ (λ m. (w : _) → ⟦<(A, B, D, E, F, G, H, I) as Deserialize<'de, R>>⟧.reads s.human R.lends m w
        → A.same v.0 w.0 × B.same v.1 w.1 × D.same v.2 w.2 × E.same v.3 w.3 × F.same v.4 w.4 × G.same v.5 w.5 × H.same v.6 w.6 × I.same v.7 w.7)
        (tuple_row s _ _ (rows_cons s _ _ (λ m. Only (A.reads s.human R.lends) A.same m v.0) _ (A.only s v.0 fits.0)
        (rows_cons s _ _ (λ m. Only (B.reads s.human R.lends) B.same m v.1) _ (B.only s v.1 fits.1)
        (rows_cons s _ _ (λ m. Only (D.reads s.human R.lends) D.same m v.2) _ (D.only s v.2 fits.2)
        (rows_cons s _ _ (λ m. Only (E.reads s.human R.lends) E.same m v.3) _ (E.only s v.3 fits.3)
        (rows_cons s _ _ (λ m. Only (F.reads s.human R.lends) F.same m v.4) _ (F.only s v.4 fits.4)
        (rows_cons s _ _ (λ m. Only (G.reads s.human R.lends) G.same m v.5) _ (G.only s v.5 fits.5)
        (rows_cons s _ _ (λ m. Only (H.reads s.human R.lends) H.same m v.6) _ (H.only s v.6 fits.6)
        (rows_cons s _ _ (λ m. Only (I.reads s.human R.lends) I.same m v.7) _ (I.only s v.7 fits.7) (rows_none s))))))))))
        (λ m q w r. row_both _ _ _ m q r (λ ks i j. let x = item_only (A.reads s.human R.lends) A.same v.0 w.0 _ _ _
        (item_only (B.reads s.human R.lends) B.same v.1 w.1 _ _ _
        (item_only (D.reads s.human R.lends) D.same v.2 w.2 _ _ _
        (item_only (E.reads s.human R.lends) E.same v.3 w.3 _ _ _
        (item_only (F.reads s.human R.lends) F.same v.4 w.4 _ _ _
        (item_only (G.reads s.human R.lends) G.same v.5 w.5 _ _ _
        (item_only (H.reads s.human R.lends) H.same v.6 w.6 _ _ _ (last_only (I.reads s.human R.lends) I.same v.7 w.7))))))) ks i j
        in (x.0, x.1.0, x.1.1.0, x.1.1.1.0, x.1.1.1.1.0, x.1.1.1.1.1.0, x.1.1.1.1.1.1.0, x.1.1.1.1.1.1.1))) };
}

impl<
    A: Serialize,
    B: Serialize,
    D: Serialize,
    E: Serialize,
    F: Serialize,
    G: Serialize,
    H: Serialize,
    I: Serialize,
> NeverNil for (A, B, D, E, F, G, H, I) {
    ghost never_nil = { λ s v. tuple_other s (A.data_of v.0 s.human ∷ B.data_of v.1 s.human ∷ D.data_of v.2 s.human ∷ E.data_of v.3 s.human
        ∷ F.data_of v.4 s.human ∷ G.data_of v.5 s.human ∷ H.data_of v.6 s.human ∷ I.data_of v.7 s.human ∷ []) };
}

impl<
    'de,
    R: ReadSlice<'de>,
    A: ContentOrd<'de, R>,
    B: ContentOrd<'de, R>,
    D: ContentOrd<'de, R>,
    E: ContentOrd<'de, R>,
    F: ContentOrd<'de, R>,
    G: ContentOrd<'de, R>,
    H: ContentOrd<'de, R>,
    I: ContentOrd<'de, R>,
> ContentOrd<'de, R> for (A, B, D, E, F, G, H, I) {
    ghost equal = { λ v w h. (then_tied _ _ (then_tied _ _
        (then_tied _ _ (then_tied _ _ (then_tied _ _ (then_tied _ _ (then_tied _ _ (A.equal v.0 w.0 h.0) (B.equal v.1 w.1 h.1)) (D.equal v.2 w.2 h.2))
        (E.equal v.3 w.3 h.3)) (F.equal v.4 w.4 h.4)) (G.equal v.5 w.5 h.5)) (H.equal v.6 w.6 h.6)) (I.equal v.7 w.7 h.7)) };
}
