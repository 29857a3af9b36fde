//! Sixteen fields and the others, as a struct. What is known of a struct is said by its name, while of a tuple it is written out. So a struct
//! of more than sixteen fields is read as these. Written by tools/tuples.py.

use super::Fields;
use super::eight::{EightSlots, EightThen};
use crate::access::map::MapAccess;
use crate::access::seq::SeqAccess;
use crate::de::Deserialize;
use crate::deserializer::Deserializer;
use crate::error::Error;
use rmp_wire::ReadSlice;
use rmp_wire::config::SerializerConfig;

/// The values of sixteen fields, and those of the fields after them.
#[derive(Drop)]
pub struct SixteenThen<A, B, D, E, G, H, I, J, K, L, M, N, O, P, Q, T, F> {
    pub first: A,
    pub second: B,
    pub third: D,
    pub fourth: E,
    pub fifth: G,
    pub sixth: H,
    pub seventh: I,
    pub eighth: J,
    pub ninth: K,
    pub tenth: L,
    pub eleventh: M,
    pub twelfth: N,
    pub thirteenth: O,
    pub fourteenth: P,
    pub fifteenth: Q,
    pub sixteenth: T,
    pub rest: F,
}

/// What was read so far of sixteen fields, and of those after them.
#[derive(Drop)]
pub struct SixteenSlots<A, B, D, E, G, H, I, J, K, L, M, N, O, P, Q, T, S> {
    read: EightSlots<A, B, D, E, G, H, I, J, EightSlots<K, L, M, N, O, P, Q, T, S>>,
}

// The sixteen are read and proved as two structs of eight.
impl<
    'de,
    R: ReadSlice<'de>,
    A: Deserialize<'de, R>,
    B: Deserialize<'de, R>,
    D: Deserialize<'de, R>,
    E: Deserialize<'de, R>,
    G: Deserialize<'de, R>,
    H: Deserialize<'de, R>,
    I: Deserialize<'de, R>,
    J: Deserialize<'de, R>,
    K: Deserialize<'de, R>,
    L: Deserialize<'de, R>,
    M: Deserialize<'de, R>,
    N: Deserialize<'de, R>,
    O: Deserialize<'de, R>,
    P: Deserialize<'de, R>,
    Q: Deserialize<'de, R>,
    T: Deserialize<'de, R>,
    F: Fields<'de, R>,
> Fields<'de, R> for SixteenThen<A, B, D, E, G, H, I, J, K, L, M, N, O, P, Q, T, F> {
    type Slots = SixteenSlots<A, B, D, E, G, H, I, J, K, L, M, N, O, P, Q, T, F::Slots>;

    ghost count = { ⟦<EightThen<A, B, D, E, G, H, I, J, EightThen<K, L, M, N, O, P, Q, T, F>> as Fields<'de, R>>⟧.count };

    ghost reads = { λ human lends fs v. ⟦<EightThen<A, B, D, E, G, H, I, J, EightThen<K, L, M, N, O, P, Q, T, F>> as Fields<'de, R>>⟧.reads human lends fs
        (record {
          first = v.first;
          second = v.second;
          third = v.third;
          fourth = v.fourth;
          fifth = v.fifth;
          sixth = v.sixth;
          seventh = v.seventh;
          eighth = v.eighth;
          rest = record {
            first = v.ninth;
            second = v.tenth;
            third = v.eleventh;
            fourth = v.twelfth;
            fifth = v.thirteenth;
            sixth = v.fourteenth;
            seventh = v.fifteenth;
            eighth = v.sixteenth;
            rest = v.rest;
          };
        }) };

    ghost holds = { λ human lends fs s. ⟦<EightThen<A, B, D, E, G, H, I, J, EightThen<K, L, M, N, O, P, Q, T, F>> as Fields<'de, R>>⟧.holds human lends fs
        s.read };

    ghost takes = { ⟦<EightThen<A, B, D, E, G, H, I, J, EightThen<K, L, M, N, O, P, Q, T, F>> as Fields<'de, R>>⟧.takes };

    ghost taken = { λ human lends fs v. ⟦<EightThen<A, B, D, E, G, H, I, J, EightThen<K, L, M, N, O, P, Q, T, F>> as Fields<'de, R>>⟧.taken human lends fs
        (record {
          first = v.first;
          second = v.second;
          third = v.third;
          fourth = v.fourth;
          fifth = v.fifth;
          sixth = v.sixth;
          seventh = v.seventh;
          eighth = v.eighth;
          rest = record {
            first = v.ninth;
            second = v.tenth;
            third = v.eleventh;
            fourth = v.twelfth;
            fifth = v.thirteenth;
            sixth = v.fourteenth;
            seventh = v.fifteenth;
            eighth = v.sixteenth;
            rest = v.rest;
          };
        }) };

    ghost parts = { ⟦<EightThen<A, B, D, E, G, H, I, J, EightThen<K, L, M, N, O, P, Q, T, F>> as Fields<'de, R>>⟧.parts };

    ghost needed = { ⟦<EightThen<A, B, D, E, G, H, I, J, EightThen<K, L, M, N, O, P, Q, T, F>> as Fields<'de, R>>⟧.needed };

    ghost takes_memory = { ⟦<EightThen<A, B, D, E, G, H, I, J, EightThen<K, L, M, N, O, P, Q, T, F>> as Fields<'de, R>>⟧.takes_memory };

    ghost many = { ⟦<EightThen<A, B, D, E, G, H, I, J, EightThen<K, L, M, N, O, P, Q, T, F>> as Fields<'de, R>>⟧.many };

    ghost held = { λ s fs t. ⟦<EightThen<A, B, D, E, G, H, I, J, EightThen<K, L, M, N, O, P, Q, T, F>> as Fields<'de, R>>⟧.held s fs t.read };

    ghost given = { λ s fs v. ⟦<EightThen<A, B, D, E, G, H, I, J, EightThen<K, L, M, N, O, P, Q, T, F>> as Fields<'de, R>>⟧.given s fs
        (record {
          first = v.first;
          second = v.second;
          third = v.third;
          fourth = v.fourth;
          fifth = v.fifth;
          sixth = v.sixth;
          seventh = v.seventh;
          eighth = v.eighth;
          rest = record {
            first = v.ninth;
            second = v.tenth;
            third = v.eleventh;
            fourth = v.twelfth;
            fifth = v.thirteenth;
            sixth = v.fourteenth;
            seventh = v.fifteenth;
            eighth = v.sixteenth;
            rest = v.rest;
          };
        }) };

    ghost counted = { λ human lends fs v. ⟦<EightThen<A, B, D, E, G, H, I, J, EightThen<K, L, M, N, O, P, Q, T, F>> as Fields<'de, R>>⟧.counted human lends
        fs (record {
          first = v.first;
          second = v.second;
          third = v.third;
          fourth = v.fourth;
          fifth = v.fifth;
          sixth = v.sixth;
          seventh = v.seventh;
          eighth = v.eighth;
          rest = record {
            first = v.ninth;
            second = v.tenth;
            third = v.eleventh;
            fourth = v.twelfth;
            fifth = v.thirteenth;
            sixth = v.fourteenth;
            seventh = v.fifteenth;
            eighth = v.sixteenth;
            rest = v.rest;
          };
        }) };

    ghost full = { λ human lends ms t h. let w = ⟦<EightThen<A, B, D, E, G, H, I, J, EightThen<K, L, M, N, O, P, Q, T, F>> as Fields<'de, R>>⟧.full human
        lends ms t.read h in (
          record {
            first = w.0.first;
            second = w.0.second;
            third = w.0.third;
            fourth = w.0.fourth;
            fifth = w.0.fifth;
            sixth = w.0.sixth;
            seventh = w.0.seventh;
            eighth = w.0.eighth;
            ninth = w.0.rest.first;
            tenth = w.0.rest.second;
            eleventh = w.0.rest.third;
            twelfth = w.0.rest.fourth;
            thirteenth = w.0.rest.fifth;
            fourteenth = w.0.rest.sixth;
            fifteenth = w.0.rest.seventh;
            sixteenth = w.0.rest.eighth;
            rest = w.0.rest.rest;
          },
          w.1,
        ) };

    fn empty() -> SixteenSlots<A, B, D, E, G, H, I, J, K, L, M, N, O, P, Q, T, F::Slots> {
        SixteenSlots {
            read: <EightThen<
                A,
                B,
                D,
                E,
                G,
                H,
                I,
                J,
                EightThen<K, L, M, N, O, P, Q, T, F>,
            > as Fields<'de, R>>::empty(),
        }
    }

    #[inline(always)]
    fn fill<'x, C: SerializerConfig>(
        slots: &mut SixteenSlots<A, B, D, E, G, H, I, J, K, L, M, N, O, P, Q, T, F::Slots>,
        refusal: &mut Option<Error>,
        place: usize,
        map: &mut MapAccess<'x, R, C>,
    ) -> bool {
        <EightThen<A, B, D, E, G, H, I, J, EightThen<K, L, M, N, O, P, Q, T, F>> as Fields<
            'de,
            R,
        >>::fill(&mut slots.read, refusal, place, map)
    }

    #[inline(always)]
    fn finish(
        slots: SixteenSlots<A, B, D, E, G, H, I, J, K, L, M, N, O, P, Q, T, F::Slots>,
        missing: &mut usize,
    ) -> Option<SixteenThen<A, B, D, E, G, H, I, J, K, L, M, N, O, P, Q, T, F>> {
        let SixteenSlots { read } = slots;
        match <EightThen<A, B, D, E, G, H, I, J, EightThen<K, L, M, N, O, P, Q, T, F>> as Fields<
            'de,
            R,
        >>::finish(read, missing)
        {
            Some(parts) => {
                let EightThen {
                    first,
                    second,
                    third,
                    fourth,
                    fifth,
                    sixth,
                    seventh,
                    eighth,
                    rest: others,
                } = parts;
                let EightThen {
                    first: ninth,
                    second: tenth,
                    third: eleventh,
                    fourth: twelfth,
                    fifth: thirteenth,
                    sixth: fourteenth,
                    seventh: fifteenth,
                    eighth: sixteenth,
                    rest,
                } = others;
                Some(SixteenThen {
                    first,
                    second,
                    third,
                    fourth,
                    fifth,
                    sixth,
                    seventh,
                    eighth,
                    ninth,
                    tenth,
                    eleventh,
                    twelfth,
                    thirteenth,
                    fourteenth,
                    fifteenth,
                    sixteenth,
                    rest,
                })
            }
            None => None,
        }
    }

    #[inline(always)]
    fn row<C: SerializerConfig>(
        slots: &mut SixteenSlots<A, B, D, E, G, H, I, J, K, L, M, N, O, P, Q, T, F::Slots>,
        refusal: &mut Option<Error>,
        de: &mut Deserializer<R, C>,
    ) -> bool {
        <EightThen<A, B, D, E, G, H, I, J, EightThen<K, L, M, N, O, P, Q, T, F>> as Fields<
            'de,
            R,
        >>::row(&mut slots.read, refusal, de)
    }

    #[inline(always)]
    fn listed<'x, C: SerializerConfig>(
        seq: &mut SeqAccess<'x, R, C>,
    ) -> Result<SixteenThen<A, B, D, E, G, H, I, J, K, L, M, N, O, P, Q, T, F>, Error> {
        match <EightThen<A, B, D, E, G, H, I, J, EightThen<K, L, M, N, O, P, Q, T, F>> as Fields<
            'de,
            R,
        >>::listed(seq)
        {
            Ok(parts) => {
                let EightThen {
                    first,
                    second,
                    third,
                    fourth,
                    fifth,
                    sixth,
                    seventh,
                    eighth,
                    rest: others,
                } = parts;
                let EightThen {
                    first: ninth,
                    second: tenth,
                    third: eleventh,
                    fourth: twelfth,
                    fifth: thirteenth,
                    sixth: fourteenth,
                    seventh: fifteenth,
                    eighth: sixteenth,
                    rest,
                } = others;
                Ok(SixteenThen {
                    first,
                    second,
                    third,
                    fourth,
                    fifth,
                    sixth,
                    seventh,
                    eighth,
                    ninth,
                    tenth,
                    eleventh,
                    twelfth,
                    thirteenth,
                    fourteenth,
                    fifteenth,
                    sixteenth,
                    rest,
                })
            }
            Err(why) => Err(why),
        }
    }
}
