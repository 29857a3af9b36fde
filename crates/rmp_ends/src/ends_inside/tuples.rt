//! Tuples. Written by tools/tuples.py.
ghost use Rattle.std.specs.Prelude.{◌∷◌, []};
ghost use Rattle.rmp_decode.specs.Refusing.{part_of};
ghost use Rattle.rmp_ends.specs.RowEnds.{tuple_inside};

use crate::ends_inside::EndsInside;
use rmp_wire::ReadSlice;

impl<'de, R: ReadSlice<'de>, A: EndsInside<'de, R>> EndsInside<'de, R> for (A,) {
    ghost ends_inside = { tuple_inside (part_of A.reads A.refuses ∷ []) (A.ends_inside, tt) };
}

impl<'de, R: ReadSlice<'de>, A: EndsInside<'de, R>, B: EndsInside<'de, R>> EndsInside<'de, R>
    for (A, B) {
    ghost ends_inside = { tuple_inside (part_of A.reads A.refuses ∷ (part_of B.reads B.refuses ∷ [])) (A.ends_inside, (B.ends_inside, tt)) };
}

impl<
    'de,
    R: ReadSlice<'de>,
    A: EndsInside<'de, R>,
    B: EndsInside<'de, R>,
    D: EndsInside<'de, R>,
> EndsInside<'de, R> for (A, B, D) {
    ghost ends_inside = { tuple_inside (part_of A.reads A.refuses ∷ (part_of B.reads B.refuses ∷ (part_of D.reads D.refuses ∷ [])))
        (A.ends_inside, (B.ends_inside, (D.ends_inside, tt))) };
}

impl<
    'de,
    R: ReadSlice<'de>,
    A: EndsInside<'de, R>,
    B: EndsInside<'de, R>,
    D: EndsInside<'de, R>,
    E: EndsInside<'de, R>,
> EndsInside<'de, R> for (A, B, D, E) {
    ghost ends_inside = { tuple_inside (part_of A.reads A.refuses
        ∷ (part_of B.reads B.refuses ∷ (part_of D.reads D.refuses ∷ (part_of E.reads E.refuses ∷ []))))
        (A.ends_inside, (B.ends_inside, (D.ends_inside, (E.ends_inside, tt)))) };
}

impl<
    'de,
    R: ReadSlice<'de>,
    A: EndsInside<'de, R>,
    B: EndsInside<'de, R>,
    D: EndsInside<'de, R>,
    E: EndsInside<'de, R>,
    F: EndsInside<'de, R>,
> EndsInside<'de, R> for (A, B, D, E, F) {
    ghost ends_inside = { tuple_inside (part_of A.reads A.refuses
        ∷ (part_of B.reads B.refuses ∷ (part_of D.reads D.refuses ∷ (part_of E.reads E.refuses ∷ (part_of F.reads F.refuses ∷ [])))))
        (A.ends_inside, (B.ends_inside, (D.ends_inside, (E.ends_inside, (F.ends_inside, tt))))) };
}

impl<
    'de,
    R: ReadSlice<'de>,
    A: EndsInside<'de, R>,
    B: EndsInside<'de, R>,
    D: EndsInside<'de, R>,
    E: EndsInside<'de, R>,
    F: EndsInside<'de, R>,
    G: EndsInside<'de, R>,
> EndsInside<'de, R> for (A, B, D, E, F, G) {
    ghost ends_inside = { tuple_inside (part_of A.reads A.refuses
        ∷ (part_of B.reads B.refuses ∷ (part_of D.reads D.refuses
        ∷ (part_of E.reads E.refuses ∷ (part_of F.reads F.refuses ∷ (part_of G.reads G.refuses ∷ []))))))
        (A.ends_inside, (B.ends_inside, (D.ends_inside, (E.ends_inside, (F.ends_inside, (G.ends_inside, tt)))))) };
}

impl<
    'de,
    R: ReadSlice<'de>,
    A: EndsInside<'de, R>,
    B: EndsInside<'de, R>,
    D: EndsInside<'de, R>,
    E: EndsInside<'de, R>,
    F: EndsInside<'de, R>,
    G: EndsInside<'de, R>,
    H: EndsInside<'de, R>,
> EndsInside<'de, R> for (A, B, D, E, F, G, H) {
    ghost ends_inside = { tuple_inside (part_of A.reads A.refuses
        ∷ (part_of B.reads B.refuses ∷ (part_of D.reads D.refuses
        ∷ (part_of E.reads E.refuses ∷ (part_of F.reads F.refuses ∷ (part_of G.reads G.refuses ∷ (part_of H.reads H.refuses ∷ [])))))))
        (A.ends_inside, (B.ends_inside, (D.ends_inside, (E.ends_inside, (F.ends_inside, (G.ends_inside, (H.ends_inside, tt))))))) };
}

impl<
    'de,
    R: ReadSlice<'de>,
    A: EndsInside<'de, R>,
    B: EndsInside<'de, R>,
    D: EndsInside<'de, R>,
    E: EndsInside<'de, R>,
    F: EndsInside<'de, R>,
    G: EndsInside<'de, R>,
    H: EndsInside<'de, R>,
    I: EndsInside<'de, R>,
> EndsInside<'de, R> for (A, B, D, E, F, G, H, I) {
    ghost ends_inside = { tuple_inside (part_of A.reads A.refuses
        ∷ (part_of B.reads B.refuses ∷ (part_of D.reads D.refuses
        ∷ (part_of E.reads E.refuses ∷ (part_of F.reads F.refuses
        ∷ (part_of G.reads G.refuses ∷ (part_of H.reads H.refuses ∷ (part_of I.reads I.refuses ∷ []))))))))
        (A.ends_inside, (B.ends_inside, (D.ends_inside, (E.ends_inside, (F.ends_inside, (G.ends_inside, (H.ends_inside, (I.ends_inside, tt)))))))) };
}

impl<
    'de,
    R: ReadSlice<'de>,
    A: EndsInside<'de, R>,
    B: EndsInside<'de, R>,
    D: EndsInside<'de, R>,
    E: EndsInside<'de, R>,
    F: EndsInside<'de, R>,
    G: EndsInside<'de, R>,
    H: EndsInside<'de, R>,
    I: EndsInside<'de, R>,
    J: EndsInside<'de, R>,
> EndsInside<'de, R> for (A, B, D, E, F, G, H, I, J) {
    ghost ends_inside = { tuple_inside (part_of A.reads A.refuses
        ∷ (part_of B.reads B.refuses ∷ (part_of D.reads D.refuses
        ∷ (part_of E.reads E.refuses ∷ (part_of F.reads F.refuses
        ∷ (part_of G.reads G.refuses ∷ (part_of H.reads H.refuses ∷ (part_of I.reads I.refuses ∷ (part_of J.reads J.refuses ∷ []))))))))) (
          A.ends_inside,
          (
            B.ends_inside,
            (
              D.ends_inside,
              (
                E.ends_inside,
                (F.ends_inside, (G.ends_inside, (H.ends_inside, (I.ends_inside, (J.ends_inside, tt))))),
              ),
            ),
          ),
        ) };
}

impl<
    'de,
    R: ReadSlice<'de>,
    A: EndsInside<'de, R>,
    B: EndsInside<'de, R>,
    D: EndsInside<'de, R>,
    E: EndsInside<'de, R>,
    F: EndsInside<'de, R>,
    G: EndsInside<'de, R>,
    H: EndsInside<'de, R>,
    I: EndsInside<'de, R>,
    J: EndsInside<'de, R>,
    K: EndsInside<'de, R>,
> EndsInside<'de, R> for (A, B, D, E, F, G, H, I, J, K) {
    ghost ends_inside = { tuple_inside (part_of A.reads A.refuses
        ∷ (part_of B.reads B.refuses ∷ (part_of D.reads D.refuses
        ∷ (part_of E.reads E.refuses ∷ (part_of F.reads F.refuses
        ∷ (part_of G.reads G.refuses ∷ (part_of H.reads H.refuses
        ∷ (part_of I.reads I.refuses ∷ (part_of J.reads J.refuses ∷ (part_of K.reads K.refuses ∷ [])))))))))) (
          A.ends_inside,
          (
            B.ends_inside,
            (
              D.ends_inside,
              (
                E.ends_inside,
                (F.ends_inside, (G.ends_inside, (H.ends_inside, (I.ends_inside, (J.ends_inside, (K.ends_inside, tt)))))),
              ),
            ),
          ),
        ) };
}

impl<
    'de,
    R: ReadSlice<'de>,
    A: EndsInside<'de, R>,
    B: EndsInside<'de, R>,
    D: EndsInside<'de, R>,
    E: EndsInside<'de, R>,
    F: EndsInside<'de, R>,
    G: EndsInside<'de, R>,
    H: EndsInside<'de, R>,
    I: EndsInside<'de, R>,
    J: EndsInside<'de, R>,
    K: EndsInside<'de, R>,
    L: EndsInside<'de, R>,
> EndsInside<'de, R> for (A, B, D, E, F, G, H, I, J, K, L) {
    ghost ends_inside = { tuple_inside (part_of A.reads A.refuses
        ∷ (part_of B.reads B.refuses ∷ (part_of D.reads D.refuses
        ∷ (part_of E.reads E.refuses ∷ (part_of F.reads F.refuses
        ∷ (part_of G.reads G.refuses ∷ (part_of H.reads H.refuses
        ∷ (part_of I.reads I.refuses ∷ (part_of J.reads J.refuses ∷ (part_of K.reads K.refuses ∷ (part_of L.reads L.refuses ∷ []))))))))))) (
          A.ends_inside,
          (
            B.ends_inside,
            (
              D.ends_inside,
              (
                E.ends_inside,
                (F.ends_inside, (G.ends_inside, (H.ends_inside, (I.ends_inside, (J.ends_inside, (K.ends_inside, (L.ends_inside, tt))))))),
              ),
            ),
          ),
        ) };
}

impl<
    'de,
    R: ReadSlice<'de>,
    A: EndsInside<'de, R>,
    B: EndsInside<'de, R>,
    D: EndsInside<'de, R>,
    E: EndsInside<'de, R>,
    F: EndsInside<'de, R>,
    G: EndsInside<'de, R>,
    H: EndsInside<'de, R>,
    I: EndsInside<'de, R>,
    J: EndsInside<'de, R>,
    K: EndsInside<'de, R>,
    L: EndsInside<'de, R>,
    M: EndsInside<'de, R>,
> EndsInside<'de, R> for (A, B, D, E, F, G, H, I, J, K, L, M) {
    ghost ends_inside = { tuple_inside (part_of A.reads A.refuses
        ∷ (part_of B.reads B.refuses ∷ (part_of D.reads D.refuses
        ∷ (part_of E.reads E.refuses ∷ (part_of F.reads F.refuses
        ∷ (part_of G.reads G.refuses ∷ (part_of H.reads H.refuses
        ∷ (part_of I.reads I.refuses ∷ (part_of J.reads J.refuses
        ∷ (part_of K.reads K.refuses ∷ (part_of L.reads L.refuses ∷ (part_of M.reads M.refuses ∷ [])))))))))))) (
          A.ends_inside,
          (
            B.ends_inside,
            (
              D.ends_inside,
              (
                E.ends_inside,
                (F.ends_inside, (G.ends_inside, (H.ends_inside, (I.ends_inside, (J.ends_inside, (K.ends_inside, (L.ends_inside, (M.ends_inside, tt)))))))),
              ),
            ),
          ),
        ) };
}
