//! Eight fields and the others, as a struct. What is known of a struct is said by its name, while of a tuple it is written out. So a struct
//! of more than sixteen fields is read as these. Written by tools/tuples.py.

use super::Fields;
use crate::access::map::MapAccess;
use crate::access::seq::SeqAccess;
use crate::de::Deserialize;
use crate::deserializer::Deserializer;
use crate::error::Error;
use rmp_wire::ReadSlice;
use rmp_wire::config::SerializerConfig;

/// The values of eight fields, and those of the fields after them.
#[derive(Drop)]
pub struct EightThen<A, B, D, E, G, H, I, J, F> {
    pub first: A,
    pub second: B,
    pub third: D,
    pub fourth: E,
    pub fifth: G,
    pub sixth: H,
    pub seventh: I,
    pub eighth: J,
    pub rest: F,
}

/// What was read so far of eight fields, and of those after them.
#[derive(Drop)]
pub struct EightSlots<A, B, D, E, G, H, I, J, S> {
    read: (
        Option<A>,
        (
            Option<B>,
            (
                Option<D>,
                (
                    Option<E>,
                    (Option<G>, (Option<H>, (Option<I>, (Option<J>, S)))),
                ),
            ),
        ),
    ),
}

// The eight are read and proved as two tuples of four.
impl<
    'de,
    R: ReadSlice<'de>,
    A: Deserialize<'de, R>,
    B: Deserialize<'de, R>,
    D: Deserialize<'de, R>,
    E: Deserialize<'de, R>,
    G: Deserialize<'de, R>,
    H: Deserialize<'de, R>,
    I: Deserialize<'de, R>,
    J: Deserialize<'de, R>,
    F: Fields<'de, R>,
> Fields<'de, R> for EightThen<A, B, D, E, G, H, I, J, F> {
    type Slots = EightSlots<A, B, D, E, G, H, I, J, F::Slots>;

    ghost count = { ⟦<(A, B, D, E, (G, H, I, J, F)) as Fields<'de, R>>⟧.count };

    ghost reads = { λ human lends fs v. ⟦<(A, B, D, E, (G, H, I, J, F)) as Fields<'de, R>>⟧.reads human lends fs
        (v.first, v.second, v.third, v.fourth, (v.fifth, v.sixth, v.seventh, v.eighth, v.rest)) };

    ghost holds = { λ human lends fs s. ⟦<(A, B, D, E, (G, H, I, J, F)) as Fields<'de, R>>⟧.holds human lends fs s.read };

    ghost takes = { ⟦<(A, B, D, E, (G, H, I, J, F)) as Fields<'de, R>>⟧.takes };

    ghost taken = { λ human lends fs v. ⟦<(A, B, D, E, (G, H, I, J, F)) as Fields<'de, R>>⟧.taken human lends fs
        (v.first, v.second, v.third, v.fourth, (v.fifth, v.sixth, v.seventh, v.eighth, v.rest)) };

    ghost parts = { ⟦<(A, B, D, E, (G, H, I, J, F)) as Fields<'de, R>>⟧.parts };

    ghost needed = { ⟦<(A, B, D, E, (G, H, I, J, F)) as Fields<'de, R>>⟧.needed };

    ghost takes_memory = { ⟦<(A, B, D, E, (G, H, I, J, F)) as Fields<'de, R>>⟧.takes_memory };

    ghost many = { ⟦<(A, B, D, E, (G, H, I, J, F)) as Fields<'de, R>>⟧.many };

    ghost held = { λ s fs t. ⟦<(A, B, D, E, (G, H, I, J, F)) as Fields<'de, R>>⟧.held s fs t.read };

    ghost given = { λ s fs v. ⟦<(A, B, D, E, (G, H, I, J, F)) as Fields<'de, R>>⟧.given s fs
        (v.first, v.second, v.third, v.fourth, (v.fifth, v.sixth, v.seventh, v.eighth, v.rest)) };

    ghost counted = { λ human lends fs v. ⟦<(A, B, D, E, (G, H, I, J, F)) as Fields<'de, R>>⟧.counted human lends fs
        (v.first, v.second, v.third, v.fourth, (v.fifth, v.sixth, v.seventh, v.eighth, v.rest)) };

    ghost full = { λ human lends ms t h. let w = ⟦<(A, B, D, E, (G, H, I, J, F)) as Fields<'de, R>>⟧.full human lends ms t.read h
        in (
          record {
            first = w.0.0;
            second = w.0.1;
            third = w.0.2;
            fourth = w.0.3;
            fifth = w.0.4.0;
            sixth = w.0.4.1;
            seventh = w.0.4.2;
            eighth = w.0.4.3;
            rest = w.0.4.4;
          },
          w.1,
        ) };

    fn empty() -> EightSlots<A, B, D, E, G, H, I, J, F::Slots> {
        EightSlots {
            read: <(A, B, D, E, (G, H, I, J, F)) as Fields<'de, R>>::empty(),
        }
    }

    #[inline(always)]
    fn fill<'x, C: SerializerConfig>(
        slots: &mut EightSlots<A, B, D, E, G, H, I, J, F::Slots>,
        refusal: &mut Option<Error>,
        place: usize,
        map: &mut MapAccess<'x, R, C>,
    ) -> bool {
        <(A, B, D, E, (G, H, I, J, F)) as Fields<'de, R>>::fill(
            &mut slots.read,
            refusal,
            place,
            map,
        )
    }

    #[inline(always)]
    fn finish(
        slots: EightSlots<A, B, D, E, G, H, I, J, F::Slots>,
        missing: &mut usize,
    ) -> Option<EightThen<A, B, D, E, G, H, I, J, F>> {
        let EightSlots { read } = slots;
        match <(A, B, D, E, (G, H, I, J, F)) as Fields<'de, R>>::finish(read, missing) {
            Some((first, second, third, fourth, (fifth, sixth, seventh, eighth, rest))) => Some(
                EightThen {
                    first,
                    second,
                    third,
                    fourth,
                    fifth,
                    sixth,
                    seventh,
                    eighth,
                    rest,
                },
            ),
            None => None,
        }
    }

    #[inline(always)]
    fn row<C: SerializerConfig>(
        slots: &mut EightSlots<A, B, D, E, G, H, I, J, F::Slots>,
        refusal: &mut Option<Error>,
        de: &mut Deserializer<R, C>,
    ) -> bool {
        <(A, B, D, E, (G, H, I, J, F)) as Fields<'de, R>>::row(&mut slots.read, refusal, de)
    }

    #[inline(always)]
    fn listed<'x, C: SerializerConfig>(
        seq: &mut SeqAccess<'x, R, C>,
    ) -> Result<EightThen<A, B, D, E, G, H, I, J, F>, Error> {
        match <(A, B, D, E, (G, H, I, J, F)) as Fields<'de, R>>::listed(seq) {
            Ok((first, second, third, fourth, (fifth, sixth, seventh, eighth, rest))) => Ok(
                EightThen {
                    first,
                    second,
                    third,
                    fourth,
                    fifth,
                    sixth,
                    seventh,
                    eighth,
                    rest,
                },
            ),
            Err(why) => Err(why),
        }
    }
}
