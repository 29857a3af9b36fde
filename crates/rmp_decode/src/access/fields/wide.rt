//! Four fields and the others, as one tuple. A struct of many fields is read as nested tuples of this kind, since its proof costs more the
//! deeper the tuples nest.

use super::Fields;
use crate::access::map::MapAccess;
use crate::access::seq::SeqAccess;
use crate::de::Deserialize;
use crate::deserializer::Deserializer;
use crate::error::Error;
use rmp_wire::ReadSlice;
use rmp_wire::config::SerializerConfig;

// The four are read and proved as nested pairs.
impl<
    'de,
    R: ReadSlice<'de>,
    A: Deserialize<'de, R>,
    B: Deserialize<'de, R>,
    D: Deserialize<'de, R>,
    E: Deserialize<'de, R>,
    F: Fields<'de, R>,
> Fields<'de, R> for (A, B, D, E, F) {
    type Slots = (Option<A>, (Option<B>, (Option<D>, (Option<E>, F::Slots))));

    ghost count = { ⟦<(A, (B, (D, (E, F)))) as Fields<'de, R>>⟧.count };

    ghost reads = { λ human lends fs v. ⟦<(A, (B, (D, (E, F)))) as Fields<'de, R>>⟧.reads human lends fs (v.0, (v.1, (v.2, (v.3, v.4)))) };

    ghost holds = { ⟦<(A, (B, (D, (E, F)))) as Fields<'de, R>>⟧.holds };

    ghost takes = { ⟦<(A, (B, (D, (E, F)))) as Fields<'de, R>>⟧.takes };

    ghost taken = { λ human lends fs v. ⟦<(A, (B, (D, (E, F)))) as Fields<'de, R>>⟧.taken human lends fs (v.0, (v.1, (v.2, (v.3, v.4)))) };

    ghost parts = { ⟦<(A, (B, (D, (E, F)))) as Fields<'de, R>>⟧.parts };

    ghost needed = { ⟦<(A, (B, (D, (E, F)))) as Fields<'de, R>>⟧.needed };

    ghost takes_memory = { ⟦<(A, (B, (D, (E, F)))) as Fields<'de, R>>⟧.takes_memory };

    ghost many = { ⟦<(A, (B, (D, (E, F)))) as Fields<'de, R>>⟧.many };

    ghost held = { ⟦<(A, (B, (D, (E, F)))) as Fields<'de, R>>⟧.held };

    ghost given = { λ s fs v. ⟦<(A, (B, (D, (E, F)))) as Fields<'de, R>>⟧.given s fs (v.0, (v.1, (v.2, (v.3, v.4)))) };

    ghost counted = { λ human lends fs v. ⟦<(A, (B, (D, (E, F)))) as Fields<'de, R>>⟧.counted human lends fs (v.0, (v.1, (v.2, (v.3, v.4)))) };

    ghost full = { λ human lends ms t. let r = ⟦<(A, (B, (D, (E, F)))) as Fields<'de, R>>⟧.full human lends ms t in
        λ h. let w = r h in ((w.0.0, w.0.1.0, w.0.1.1.0, w.0.1.1.1.0, w.0.1.1.1.1), w.1) };

    fn empty() -> (Option<A>, (Option<B>, (Option<D>, (Option<E>, F::Slots)))) {
        (None, (None, (None, (None, F::empty()))))
    }

    #[inline(always)]
    fn fill<'x, C: SerializerConfig>(
        slots: &mut (Option<A>, (Option<B>, (Option<D>, (Option<E>, F::Slots)))),
        refusal: &mut Option<Error>,
        place: usize,
        map: &mut MapAccess<'x, R, C>,
    ) -> bool {
        <(A, (B, (D, (E, F)))) as Fields<'de, R>>::fill(slots, refusal, place, map)
    }

    #[inline(always)]
    fn finish(
        slots: (Option<A>, (Option<B>, (Option<D>, (Option<E>, F::Slots)))),
        missing: &mut usize,
    ) -> Option<(A, B, D, E, F)> {
        match <(A, (B, (D, (E, F)))) as Fields<'de, R>>::finish(slots, missing) {
            Some((a, (b, (d, (e, others))))) => Some((a, b, d, e, others)),
            None => None,
        }
    }

    #[inline(always)]
    fn row<C: SerializerConfig>(
        slots: &mut (Option<A>, (Option<B>, (Option<D>, (Option<E>, F::Slots)))),
        refusal: &mut Option<Error>,
        de: &mut Deserializer<R, C>,
    ) -> bool {
        <(A, (B, (D, (E, F)))) as Fields<'de, R>>::row(slots, refusal, de)
    }

    #[inline(always)]
    fn listed<'x, C: SerializerConfig>(
        seq: &mut SeqAccess<'x, R, C>,
    ) -> Result<(A, B, D, E, F), Error> {
        match <(A, (B, (D, (E, F)))) as Fields<'de, R>>::listed(seq) {
            Ok((a, (b, (d, (e, others))))) => Ok((a, b, d, e, others)),
            Err(why) => Err(why),
        }
    }
}
