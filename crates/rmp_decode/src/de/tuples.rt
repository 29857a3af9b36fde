//! Tuples, from lists of as many elements, or bytes of as many. Written by tools/tuples.py.
ghost use Rattle.std.specs.Prelude.{◌||◌, None, [], ◌∷◌};
ghost use Rattle.rmp_decode.specs.Refusing.{part_of, RefusesTuple};
ghost use Rattle.rmp_decode.specs.Rows.{AndThen, NoMore};
ghost use Rattle.rmp_decode.specs.Seq.{OfRow};

use crate::de::Deserialize;
use crate::deserializer::Deserializer;
use crate::error::Error;
use rmp_wire::ReadSlice;
use rmp_wire::config::SerializerConfig;

impl<'de, R: ReadSlice<'de>, A: Deserialize<'de, R>> Deserialize<'de, R> for (A,) {
    ghost reads = { λ human lends m v. OfRow (AndThen (λ k. A.reads human lends k v.0) NoMore) m };

    ghost absent = { None };

    ghost refuses = { RefusesTuple (part_of A.reads A.refuses ∷ []) };

    ghost takes_memory = { λ lends. A.takes_memory lends };

    #[inline(always)]
    fn deserialize<C: SerializerConfig>(de: &mut Deserializer<R, C>) -> Result<(A,), Error> {
        match de.tuple_parts(1) {
            Ok((a, ())) => Ok((a,)),
            Err(e) => Err(e),
        }
    }

    fn missing() -> Option<(A,)> {
        None
    }
}

impl<'de, R: ReadSlice<'de>, A: Deserialize<'de, R>, B: Deserialize<'de, R>> Deserialize<'de, R>
    for (A, B) {
    ghost reads = { λ human lends m v. OfRow (AndThen (λ k. A.reads human lends k v.0) (AndThen (λ k. B.reads human lends k v.1) NoMore)) m };

    ghost absent = { None };

    ghost refuses = { RefusesTuple (part_of A.reads A.refuses ∷ part_of B.reads B.refuses ∷ []) };

    ghost takes_memory = { λ lends. A.takes_memory lends || B.takes_memory lends };

    #[inline(always)]
    fn deserialize<C: SerializerConfig>(de: &mut Deserializer<R, C>) -> Result<(A, B), Error> {
        match de.tuple_parts(2) {
            Ok((a, (b, ()))) => Ok((a, b)),
            Err(e) => Err(e),
        }
    }

    fn missing() -> Option<(A, B)> {
        None
    }
}

impl<
    'de,
    R: ReadSlice<'de>,
    A: Deserialize<'de, R>,
    B: Deserialize<'de, R>,
    D: Deserialize<'de, R>,
> Deserialize<'de, R> for (A, B, D) {
    ghost reads = { λ human lends m v. OfRow (AndThen (λ k. A.reads human lends k v.0)
        (AndThen (λ k. B.reads human lends k v.1) (AndThen (λ k. D.reads human lends k v.2) NoMore))) m };

    ghost absent = { None };

    ghost refuses = { RefusesTuple (part_of A.reads A.refuses ∷ part_of B.reads B.refuses ∷ part_of D.reads D.refuses ∷ []) };

    ghost takes_memory = { λ lends. A.takes_memory lends || (B.takes_memory lends || D.takes_memory lends) };

    #[inline(always)]
    fn deserialize<C: SerializerConfig>(de: &mut Deserializer<R, C>) -> Result<(A, B, D), Error> {
        match de.tuple_parts(3) {
            Ok((a, (b, (d, ())))) => Ok((a, b, d)),
            Err(e) => Err(e),
        }
    }

    fn missing() -> Option<(A, B, D)> {
        None
    }
}

impl<
    'de,
    R: ReadSlice<'de>,
    A: Deserialize<'de, R>,
    B: Deserialize<'de, R>,
    D: Deserialize<'de, R>,
    E: Deserialize<'de, R>,
> Deserialize<'de, R> for (A, B, D, E) {
    ghost reads = { λ human lends m v. OfRow (AndThen (λ k. A.reads human lends k v.0)
        (AndThen (λ k. B.reads human lends k v.1) (AndThen (λ k. D.reads human lends k v.2) (AndThen (λ k. E.reads human lends k v.3) NoMore)))) m };

    ghost absent = { None };

    ghost refuses = { RefusesTuple (part_of A.reads A.refuses ∷ part_of B.reads B.refuses ∷ part_of D.reads D.refuses ∷ part_of E.reads E.refuses ∷ []) };

    ghost takes_memory = { λ lends. A.takes_memory lends || (B.takes_memory lends || (D.takes_memory lends || E.takes_memory lends)) };

    #[inline(always)]
    fn deserialize<C: SerializerConfig>(
        de: &mut Deserializer<R, C>,
    ) -> Result<(A, B, D, E), Error> {
        match de.tuple_parts(4) {
            Ok((a, (b, (d, (e, ()))))) => Ok((a, b, d, e)),
            Err(e) => Err(e),
        }
    }

    fn missing() -> Option<(A, B, D, E)> {
        None
    }
}

impl<
    'de,
    R: ReadSlice<'de>,
    A: Deserialize<'de, R>,
    B: Deserialize<'de, R>,
    D: Deserialize<'de, R>,
    E: Deserialize<'de, R>,
    F: Deserialize<'de, R>,
> Deserialize<'de, R> for (A, B, D, E, F) {
    ghost reads = { λ human lends m v. OfRow (AndThen (λ k. A.reads human lends k v.0)
        (AndThen (λ k. B.reads human lends k v.1) (AndThen (λ k. D.reads human lends k v.2)
        (AndThen (λ k. E.reads human lends k v.3) (AndThen (λ k. F.reads human lends k v.4) NoMore))))) m };

    ghost absent = { None };

    ghost refuses = { RefusesTuple (part_of A.reads A.refuses ∷ part_of B.reads B.refuses ∷ part_of D.reads D.refuses ∷ part_of E.reads E.refuses
        ∷ part_of F.reads F.refuses ∷ []) };

    ghost takes_memory = { λ lends. A.takes_memory lends
        || (B.takes_memory lends || (D.takes_memory lends || (E.takes_memory lends || F.takes_memory lends))) };

    #[inline(always)]
    fn deserialize<C: SerializerConfig>(
        de: &mut Deserializer<R, C>,
    ) -> Result<(A, B, D, E, F), Error> {
        match de.tuple_parts(5) {
            Ok((a, b, d, e, (f, ()))) => Ok((a, b, d, e, f)),
            Err(e) => Err(e),
        }
    }

    fn missing() -> Option<(A, B, D, E, F)> {
        None
    }
}

impl<
    'de,
    R: ReadSlice<'de>,
    A: Deserialize<'de, R>,
    B: Deserialize<'de, R>,
    D: Deserialize<'de, R>,
    E: Deserialize<'de, R>,
    F: Deserialize<'de, R>,
    G: Deserialize<'de, R>,
> Deserialize<'de, R> for (A, B, D, E, F, G) {
    ghost reads = { λ human lends m v. OfRow (AndThen (λ k. A.reads human lends k v.0)
        (AndThen (λ k. B.reads human lends k v.1) (AndThen (λ k. D.reads human lends k v.2)
        (AndThen (λ k. E.reads human lends k v.3) (AndThen (λ k. F.reads human lends k v.4) (AndThen (λ k. G.reads human lends k v.5) NoMore)))))) m };

    ghost absent = { None };

    ghost refuses = { RefusesTuple (part_of A.reads A.refuses ∷ part_of B.reads B.refuses ∷ part_of D.reads D.refuses ∷ part_of E.reads E.refuses
        ∷ part_of F.reads F.refuses ∷ part_of G.reads G.refuses ∷ []) };

    ghost takes_memory = { λ lends. A.takes_memory lends
        || (B.takes_memory lends || (D.takes_memory lends || (E.takes_memory lends || (F.takes_memory lends || G.takes_memory lends)))) };

    #[inline(always)]
    fn deserialize<C: SerializerConfig>(
        de: &mut Deserializer<R, C>,
    ) -> Result<(A, B, D, E, F, G), Error> {
        match de.tuple_parts(6) {
            Ok((a, b, d, e, (f, (g, ())))) => Ok((a, b, d, e, f, g)),
            Err(e) => Err(e),
        }
    }

    fn missing() -> Option<(A, B, D, E, F, G)> {
        None
    }
}

impl<
    'de,
    R: ReadSlice<'de>,
    A: Deserialize<'de, R>,
    B: Deserialize<'de, R>,
    D: Deserialize<'de, R>,
    E: Deserialize<'de, R>,
    F: Deserialize<'de, R>,
    G: Deserialize<'de, R>,
    H: Deserialize<'de, R>,
> Deserialize<'de, R> for (A, B, D, E, F, G, H) {
    ghost reads = { λ human lends m v. OfRow (AndThen (λ k. A.reads human lends k v.0)
        (AndThen (λ k. B.reads human lends k v.1) (AndThen (λ k. D.reads human lends k v.2)
        (AndThen (λ k. E.reads human lends k v.3) (AndThen (λ k. F.reads human lends k v.4)
        (AndThen (λ k. G.reads human lends k v.5) (AndThen (λ k. H.reads human lends k v.6) NoMore))))))) m };

    ghost absent = { None };

    ghost refuses = { RefusesTuple (part_of A.reads A.refuses ∷ part_of B.reads B.refuses ∷ part_of D.reads D.refuses ∷ part_of E.reads E.refuses
        ∷ part_of F.reads F.refuses ∷ part_of G.reads G.refuses ∷ part_of H.reads H.refuses ∷ []) };

    ghost takes_memory = { λ lends. A.takes_memory lends
        || (B.takes_memory lends || (D.takes_memory lends ||
        (E.takes_memory lends || (F.takes_memory lends || (G.takes_memory lends || H.takes_memory lends))))) };

    #[inline(always)]
    fn deserialize<C: SerializerConfig>(
        de: &mut Deserializer<R, C>,
    ) -> Result<(A, B, D, E, F, G, H), Error> {
        match de.tuple_parts(7) {
            Ok((a, b, d, e, (f, (g, (h, ()))))) => Ok((a, b, d, e, f, g, h)),
            Err(e) => Err(e),
        }
    }

    fn missing() -> Option<(A, B, D, E, F, G, H)> {
        None
    }
}

impl<
    'de,
    R: ReadSlice<'de>,
    A: Deserialize<'de, R>,
    B: Deserialize<'de, R>,
    D: Deserialize<'de, R>,
    E: Deserialize<'de, R>,
    F: Deserialize<'de, R>,
    G: Deserialize<'de, R>,
    H: Deserialize<'de, R>,
    I: Deserialize<'de, R>,
> Deserialize<'de, R> for (A, B, D, E, F, G, H, I) {
    ghost reads = { λ human lends m v. OfRow (AndThen (λ k. A.reads human lends k v.0)
        (AndThen (λ k. B.reads human lends k v.1) (AndThen (λ k. D.reads human lends k v.2)
        (AndThen (λ k. E.reads human lends k v.3) (AndThen (λ k. F.reads human lends k v.4)
        (AndThen (λ k. G.reads human lends k v.5) (AndThen (λ k. H.reads human lends k v.6) (AndThen (λ k. I.reads human lends k v.7) NoMore)))))))) m };

    ghost absent = { None };

    ghost refuses = { RefusesTuple (part_of A.reads A.refuses ∷ part_of B.reads B.refuses ∷ part_of D.reads D.refuses ∷ part_of E.reads E.refuses
        ∷ part_of F.reads F.refuses ∷ part_of G.reads G.refuses ∷ part_of H.reads H.refuses ∷ part_of I.reads I.refuses ∷ []) };

    ghost takes_memory = { λ lends. A.takes_memory lends
        || (B.takes_memory lends || (D.takes_memory lends ||
        (E.takes_memory lends || (F.takes_memory lends || (G.takes_memory lends || (H.takes_memory lends || I.takes_memory lends)))))) };

    #[inline(always)]
    fn deserialize<C: SerializerConfig>(
        de: &mut Deserializer<R, C>,
    ) -> Result<(A, B, D, E, F, G, H, I), Error> {
        match de.tuple_parts(8) {
            Ok((a, b, d, e, (f, (g, (h, (i, ())))))) => Ok((a, b, d, e, f, g, h, i)),
            Err(e) => Err(e),
        }
    }

    fn missing() -> Option<(A, B, D, E, F, G, H, I)> {
        None
    }
}

impl<
    'de,
    R: ReadSlice<'de>,
    A: Deserialize<'de, R>,
    B: Deserialize<'de, R>,
    D: Deserialize<'de, R>,
    E: Deserialize<'de, R>,
    F: Deserialize<'de, R>,
    G: Deserialize<'de, R>,
    H: Deserialize<'de, R>,
    I: Deserialize<'de, R>,
    J: Deserialize<'de, R>,
> Deserialize<'de, R> for (A, B, D, E, F, G, H, I, J) {
    ghost reads = { λ human lends m v. OfRow (AndThen (λ k. A.reads human lends k v.0)
        (AndThen (λ k. B.reads human lends k v.1) (AndThen (λ k. D.reads human lends k v.2)
        (AndThen (λ k. E.reads human lends k v.3) (AndThen (λ k. F.reads human lends k v.4)
        (AndThen (λ k. G.reads human lends k v.5) (AndThen (λ k. H.reads human lends k v.6)
        (AndThen (λ k. I.reads human lends k v.7) (AndThen (λ k. J.reads human lends k v.8) NoMore))))))))) m };

    ghost absent = { None };

    ghost refuses = { RefusesTuple (part_of A.reads A.refuses ∷ part_of B.reads B.refuses ∷ part_of D.reads D.refuses ∷ part_of E.reads E.refuses
        ∷ part_of F.reads F.refuses ∷ part_of G.reads G.refuses ∷ part_of H.reads H.refuses ∷ part_of I.reads I.refuses ∷ part_of J.reads J.refuses ∷ []) };

    ghost takes_memory = { λ lends. A.takes_memory lends
        || (B.takes_memory lends || (D.takes_memory lends ||
        (E.takes_memory lends || (F.takes_memory lends || (G.takes_memory lends
        || (H.takes_memory lends || (I.takes_memory lends || J.takes_memory lends))))))) };

    #[inline(always)]
    fn deserialize<C: SerializerConfig>(
        de: &mut Deserializer<R, C>,
    ) -> Result<(A, B, D, E, F, G, H, I, J), Error> {
        match de.tuple_parts(9) {
            Ok((a, b, d, e, (f, g, h, i, (j, ())))) => Ok((a, b, d, e, f, g, h, i, j)),
            Err(e) => Err(e),
        }
    }

    fn missing() -> Option<(A, B, D, E, F, G, H, I, J)> {
        None
    }
}

impl<
    'de,
    R: ReadSlice<'de>,
    A: Deserialize<'de, R>,
    B: Deserialize<'de, R>,
    D: Deserialize<'de, R>,
    E: Deserialize<'de, R>,
    F: Deserialize<'de, R>,
    G: Deserialize<'de, R>,
    H: Deserialize<'de, R>,
    I: Deserialize<'de, R>,
    J: Deserialize<'de, R>,
    K: Deserialize<'de, R>,
> Deserialize<'de, R> for (A, B, D, E, F, G, H, I, J, K) {
    ghost reads = { λ human lends m v. OfRow (AndThen (λ k. A.reads human lends k v.0)
        (AndThen (λ k. B.reads human lends k v.1) (AndThen (λ k. D.reads human lends k v.2)
        (AndThen (λ k. E.reads human lends k v.3) (AndThen (λ k. F.reads human lends k v.4)
        (AndThen (λ k. G.reads human lends k v.5) (AndThen (λ k. H.reads human lends k v.6)
        (AndThen (λ k. I.reads human lends k v.7) (AndThen (λ k. J.reads human lends k v.8) (AndThen (λ k. K.reads human lends k v.9) NoMore)))))))))) m };

    ghost absent = { None };

    ghost refuses = { RefusesTuple (part_of A.reads A.refuses ∷ part_of B.reads B.refuses ∷ part_of D.reads D.refuses ∷ part_of E.reads E.refuses
        ∷ part_of F.reads F.refuses ∷ part_of G.reads G.refuses ∷ part_of H.reads H.refuses ∷ part_of I.reads I.refuses ∷ part_of J.reads J.refuses
        ∷ part_of K.reads K.refuses ∷ []) };

    ghost takes_memory = { λ lends. A.takes_memory lends
        || (B.takes_memory lends || (D.takes_memory lends ||
        (E.takes_memory lends || (F.takes_memory lends || (G.takes_memory lends
        || (H.takes_memory lends || (I.takes_memory lends || (J.takes_memory lends || K.takes_memory lends)))))))) };

    #[inline(always)]
    fn deserialize<C: SerializerConfig>(
        de: &mut Deserializer<R, C>,
    ) -> Result<(A, B, D, E, F, G, H, I, J, K), Error> {
        match de.tuple_parts(10) {
            Ok((a, b, d, e, (f, g, h, i, (j, (k, ()))))) => Ok((a, b, d, e, f, g, h, i, j, k)),
            Err(e) => Err(e),
        }
    }

    fn missing() -> Option<(A, B, D, E, F, G, H, I, J, K)> {
        None
    }
}

impl<
    'de,
    R: ReadSlice<'de>,
    A: Deserialize<'de, R>,
    B: Deserialize<'de, R>,
    D: Deserialize<'de, R>,
    E: Deserialize<'de, R>,
    F: Deserialize<'de, R>,
    G: Deserialize<'de, R>,
    H: Deserialize<'de, R>,
    I: Deserialize<'de, R>,
    J: Deserialize<'de, R>,
    K: Deserialize<'de, R>,
    L: Deserialize<'de, R>,
> Deserialize<'de, R> for (A, B, D, E, F, G, H, I, J, K, L) {
    ghost reads = { λ human lends m v. OfRow (AndThen (λ k. A.reads human lends k v.0)
        (AndThen (λ k. B.reads human lends k v.1) (AndThen (λ k. D.reads human lends k v.2)
        (AndThen (λ k. E.reads human lends k v.3) (AndThen (λ k. F.reads human lends k v.4)
        (AndThen (λ k. G.reads human lends k v.5) (AndThen (λ k. H.reads human lends k v.6)
        (AndThen (λ k. I.reads human lends k v.7) (AndThen (λ k. J.reads human lends k v.8)
        (AndThen (λ k. K.reads human lends k v.9) (AndThen (λ k. L.reads human lends k v.10) NoMore))))))))))) m };

    ghost absent = { None };

    ghost refuses = { RefusesTuple (part_of A.reads A.refuses ∷ part_of B.reads B.refuses ∷ part_of D.reads D.refuses ∷ part_of E.reads E.refuses
        ∷ part_of F.reads F.refuses ∷ part_of G.reads G.refuses ∷ part_of H.reads H.refuses ∷ part_of I.reads I.refuses ∷ part_of J.reads J.refuses
        ∷ part_of K.reads K.refuses ∷ part_of L.reads L.refuses ∷ []) };

    ghost takes_memory = { λ lends. A.takes_memory lends
        || (B.takes_memory lends || (D.takes_memory lends ||
        (E.takes_memory lends || (F.takes_memory lends || (G.takes_memory lends
        || (H.takes_memory lends || (I.takes_memory lends || (J.takes_memory lends || (K.takes_memory lends || L.takes_memory lends))))))))) };

    #[inline(always)]
    fn deserialize<C: SerializerConfig>(
        de: &mut Deserializer<R, C>,
    ) -> Result<(A, B, D, E, F, G, H, I, J, K, L), Error> {
        match de.tuple_parts(11) {
            Ok((a, b, d, e, (f, g, h, i, (j, (k, (l, ())))))) => Ok((
                a, b, d, e, f, g, h, i, j, k, l,
            )),
            Err(e) => Err(e),
        }
    }

    fn missing() -> Option<(A, B, D, E, F, G, H, I, J, K, L)> {
        None
    }
}

impl<
    'de,
    R: ReadSlice<'de>,
    A: Deserialize<'de, R>,
    B: Deserialize<'de, R>,
    D: Deserialize<'de, R>,
    E: Deserialize<'de, R>,
    F: Deserialize<'de, R>,
    G: Deserialize<'de, R>,
    H: Deserialize<'de, R>,
    I: Deserialize<'de, R>,
    J: Deserialize<'de, R>,
    K: Deserialize<'de, R>,
    L: Deserialize<'de, R>,
    M: Deserialize<'de, R>,
> Deserialize<'de, R> for (A, B, D, E, F, G, H, I, J, K, L, M) {
    ghost reads = { λ human lends m v. OfRow (AndThen (λ k. A.reads human lends k v.0)
        (AndThen (λ k. B.reads human lends k v.1) (AndThen (λ k. D.reads human lends k v.2)
        (AndThen (λ k. E.reads human lends k v.3) (AndThen (λ k. F.reads human lends k v.4)
        (AndThen (λ k. G.reads human lends k v.5) (AndThen (λ k. H.reads human lends k v.6)
        (AndThen (λ k. I.reads human lends k v.7) (AndThen (λ k. J.reads human lends k v.8)
        (AndThen (λ k. K.reads human lends k v.9) (AndThen (λ k. L.reads human lends k v.10) (AndThen (λ k. M.reads human lends k v.11) NoMore)))))))))))) m };

    ghost absent = { None };

    ghost refuses = { RefusesTuple (part_of A.reads A.refuses ∷ part_of B.reads B.refuses ∷ part_of D.reads D.refuses ∷ part_of E.reads E.refuses
        ∷ part_of F.reads F.refuses ∷ part_of G.reads G.refuses ∷ part_of H.reads H.refuses ∷ part_of I.reads I.refuses ∷ part_of J.reads J.refuses
        ∷ part_of K.reads K.refuses ∷ part_of L.reads L.refuses ∷ part_of M.reads M.refuses ∷ []) };

    ghost takes_memory = { λ lends. A.takes_memory lends
        || (B.takes_memory lends || (D.takes_memory lends ||
        (E.takes_memory lends || (F.takes_memory lends || (G.takes_memory lends
        || (H.takes_memory lends || (I.takes_memory lends ||
        (J.takes_memory lends || (K.takes_memory lends || (L.takes_memory lends || M.takes_memory lends)))))))))) };

    #[inline(always)]
    fn deserialize<C: SerializerConfig>(
        de: &mut Deserializer<R, C>,
    ) -> Result<(A, B, D, E, F, G, H, I, J, K, L, M), Error> {
        match de.tuple_parts(12) {
            Ok((a, b, d, e, (f, g, h, i, (j, (k, (l, (m, ()))))))) => Ok((
                a, b, d, e, f, g, h, i, j, k, l, m,
            )),
            Err(e) => Err(e),
        }
    }

    fn missing() -> Option<(A, B, D, E, F, G, H, I, J, K, L, M)> {
        None
    }
}
