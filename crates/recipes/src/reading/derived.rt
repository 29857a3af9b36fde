//! How the types of reading.rt are written and read. Written by tools/derive.py.
//!
//! Sum of Reading: 850320fe.
ghost use Rattle.rmp_serde.specs.Decoding.FieldRefusing.{RefusesFields};
ghost use Rattle.rmp_serde.specs.Decoding.Fields.{OfFields, Field, Absent, NoField};
ghost use Rattle.rmp_serde.specs.Decoding.Refusing.{part_of};
ghost use Rattle.rmp_serde.specs.Encoding.Refusals.{OfParts};
ghost use Rattle.rmp_serde.specs.Encoding.Sizes.{one_of};
ghost use Rattle.rmp_serde.specs.Encoding.Trees.{structure_of};
ghost use Rattle.rmp_serde.specs.AlikeData.{text_alike};
ghost use Rattle.rmp_serde.specs.FieldEnds.{fields_inside};
ghost use Rattle.rmp_serde.specs.LeafEnds.{number_inside, string_inside};
ghost use Rattle.rmp_serde.specs.LeafRounds.{unsigned_row_32, signed_row_16, string_row};
ghost use Rattle.rmp_serde.specs.OnlyFields.{field_only, fields_both, last_field};
ghost use Rattle.rmp_serde.specs.OnlyLeaves.{unsigned_only, signed_only, string_only};
ghost use Rattle.rmp_serde.specs.OnlyRows.{lowers_then};
ghost use Rattle.rmp_serde.specs.RoundTrip.{Only};
ghost use Rattle.rmp_serde.specs.StructRounds.{structure_all, structure_row, structure_other, fields_none, fields_cons};
ghost use Rattle.std.proofs.Common.{refl};
ghost use Rattle.std.specs.Option.{is_none};
ghost use Rattle.std.specs.Prelude.{◌∷◌, [], None, codes, string_bytes, pos, negsuc};

use super::Reading;
use rmp_serde::decode::{Deserialize, Deserializer};
use rmp_serde::encode::{Serialize, Serializer};
use rmp_serde::wire::config::SerializerConfig;
use rmp_serde::wire::{ReadSlice, Sink};
use rmp_serde::{EndsInside, NeverNil, RoundTrip};

impl Serialize for Reading {
    ghost data_of = { λ v human. structure_of ((codes "second", ⟦<u32 as Serialize>⟧.data_of v.second human)
        ∷ ((codes "sensor", ⟦<String as Serialize>⟧.data_of v.sensor human) ∷ ((codes "celsius", ⟦<i16 as Serialize>⟧.data_of v.celsius human) ∷ []))) };

    ghost is_value = { λ v. ⟦<u32 as Serialize>⟧.is_value v.second × ⟦<String as Serialize>⟧.is_value v.sensor × ⟦<i16 as Serialize>⟧.is_value v.celsius };

    ghost takes_memory = { λ s. one_of (⟦<u32 as Serialize>⟧.takes_memory s
        ∷ (⟦<String as Serialize>⟧.takes_memory s ∷ (⟦<i16 as Serialize>⟧.takes_memory s ∷ []))) };

    ghost refuses = { λ v. OfParts ⊥ (⟦<u32 as Serialize>⟧.refuses v.second
        ∷ (⟦<String as Serialize>⟧.refuses v.sensor ∷ (⟦<i16 as Serialize>⟧.refuses v.celsius ∷ []))) };

    fn serialize<W: Sink, C: SerializerConfig>(
        &self,
        se: &mut Serializer<W, C>,
    ) -> Result<(), rmp_serde::encode::Error> {
        let parts = rmp_serde::encode::Three {
            first: &self.second,
            second: &self.sensor,
            third: &self.celsius,
        };
        se.serialize_fields("Reading", &["second", "sensor", "celsius"], &parts)
    }

    #[tactic(auto, using(rmp_serde::proofs::Attributes::structure_no_byte))]
    fn as_u8(&self, _human: bool) -> Option<u8> {
        None
    }
}

impl<'de, R: ReadSlice<'de>> Deserialize<'de, R> for Reading {
    ghost reads = { λ human lends m v. OfFields (codes "second" ∷ (codes "sensor" ∷ (codes "celsius" ∷ [])))
        (Field (λ j. ⟦<u32 as Deserialize<'de, R>>⟧.reads human lends j v.second) (Absent ⟦<u32 as Deserialize<'de, R>>⟧.absent v.second)
        (Field (λ j. ⟦<String as Deserialize<'de, R>>⟧.reads human lends j v.sensor) (Absent ⟦<String as Deserialize<'de, R>>⟧.absent v.sensor)
        (Field (λ j. ⟦<i16 as Deserialize<'de, R>>⟧.reads human lends j v.celsius) (Absent ⟦<i16 as Deserialize<'de, R>>⟧.absent v.celsius) NoField))) m };

    ghost absent = { None };

    ghost refuses = { RefusesFields (codes "second" ∷ (codes "sensor" ∷ (codes "celsius" ∷ [])))
        (is_none ⟦<u32 as Deserialize<'de, R>>⟧.absent ∷ (is_none ⟦<String as Deserialize<'de, R>>⟧.absent
        ∷ (is_none ⟦<i16 as Deserialize<'de, R>>⟧.absent ∷ [])))
        (part_of ⟦<u32 as Deserialize<'de, R>>⟧.reads ⟦<u32 as Deserialize<'de, R>>⟧.refuses
        ∷ (part_of ⟦<String as Deserialize<'de, R>>⟧.reads ⟦<String as Deserialize<'de, R>>⟧.refuses
        ∷ (part_of ⟦<i16 as Deserialize<'de, R>>⟧.reads ⟦<i16 as Deserialize<'de, R>>⟧.refuses ∷ []))) };

    #[inline(always)]
    fn deserialize<C: SerializerConfig>(
        de: &mut Deserializer<R, C>,
    ) -> Result<Reading, rmp_serde::decode::Error> {
        let read: Result<(u32, (String, (i16, ()))), rmp_serde::decode::Error> =
            rmp_serde::decode::read_fields_3(de, &["second", "sensor", "celsius"]);
        match read {
            Ok(parts) => {
                let (second, (sensor, (celsius, ()))) = parts;
                return Ok(Reading {
                    second,
                    sensor,
                    celsius,
                });
            }
            Err(e) => return Err(e),
        }
    }

    fn missing() -> Option<Reading> {
        None
    }
}

impl<'de, R: ReadSlice<'de>> RoundTrip<'de, R> for Reading {
    ghost has_data = { λ human v. structure_all ((codes "second", ⟦<u32 as Serialize>⟧.data_of v.second human)
        ∷ ((codes "sensor", ⟦<String as Serialize>⟧.data_of v.sensor human) ∷ ((codes "celsius", ⟦<i16 as Serialize>⟧.data_of v.celsius human) ∷ [])))
        (refl, (refl, (refl, tt))) };

    ghost round = { λ lent s v fits. structure_row s (codes "second" ∷ (codes "sensor" ∷ (codes "celsius" ∷ []))) _ _ refl
        (fields_cons s (codes "second") _ _ _ (λ j. ⟦<u32 as Deserialize<'de, R>>⟧.reads s.human R.lends j v.second)
        (Absent ⟦<u32 as Deserialize<'de, R>>⟧.absent v.second) _ (unsigned_row_32 s v.second fits.0)
        (fields_cons s (codes "sensor") _ _ _ (λ j. ⟦<String as Deserialize<'de, R>>⟧.reads s.human R.lends j v.sensor)
        (Absent ⟦<String as Deserialize<'de, R>>⟧.absent v.sensor) _ (string_row s (string_bytes v.sensor))
        (fields_cons s (codes "celsius") _ _ _ (λ j. ⟦<i16 as Deserialize<'de, R>>⟧.reads s.human R.lends j v.celsius)
        (Absent ⟦<i16 as Deserialize<'de, R>>⟧.absent v.celsius) _ (signed_row_16 s v.celsius fits.2) (fields_none s)))) };

    ghost same = { λ v w. ⟦<u32 as RoundTrip<'de, R>>⟧.same v.second w.second × ⟦<String as RoundTrip<'de, R>>⟧.same v.sensor w.sensor
        × ⟦<i16 as RoundTrip<'de, R>>⟧.same v.celsius w.celsius };

    ghost alike = { λ human v w h i. structure_of ((codes "second", (⟦<u32 as Serialize>⟧.data_of (h.0 i) human))
        ∷ ((codes "sensor", (text_alike (string_bytes v.sensor) (string_bytes w.sensor) h.1 i))
        ∷ ((codes "celsius", (⟦<i16 as Serialize>⟧.data_of (h.2 i) human)) ∷ []))) };

    ghost only = { λ s v fits. lowers_then s _ _ (λ m. (w : _) → (⟦<Reading as Deserialize<'de, R>>⟧.reads s.human R.lends) m w
        → ⟦<u32 as RoundTrip<'de, R>>⟧.same v.second w.second × ⟦<String as RoundTrip<'de, R>>⟧.same v.sensor w.sensor
        × ⟦<i16 as RoundTrip<'de, R>>⟧.same v.celsius w.celsius)
        (structure_row s (codes "second" ∷ (codes "sensor" ∷ (codes "celsius" ∷ []))) _ _ refl
        (fields_cons s (codes "second") _ _ _ (λ j. Only (⟦<u32 as Deserialize<'de, R>>⟧.reads s.human R.lends) ⟦<u32 as RoundTrip<'de, R>>⟧.same j
        v.second) ⊥ _ (unsigned_only s 4294967295 v.second)
        (fields_cons s (codes "sensor") _ _ _ (λ j. Only (⟦<String as Deserialize<'de, R>>⟧.reads s.human R.lends) ⟦<String as RoundTrip<'de, R>>⟧.same j
        v.sensor) ⊥ _ (string_only s (λ w. string_bytes w) (string_bytes v.sensor))
        (fields_cons s (codes "celsius") _ _ _ (λ j. Only (⟦<i16 as Deserialize<'de, R>>⟧.reads s.human R.lends) ⟦<i16 as RoundTrip<'de, R>>⟧.same j
        v.celsius) ⊥ _ (signed_only s (negsuc 32767) (pos 32767) v.celsius) (fields_none s)))))
        (λ m q w r. fields_both (codes "second" ∷ (codes "sensor" ∷ (codes "celsius" ∷ []))) _ _ _ m q r
        (λ ks i j. let x = field_only (⟦<u32 as Deserialize<'de, R>>⟧.reads s.human R.lends) ⟦<u32 as RoundTrip<'de, R>>⟧.same v.second w.second _ _ _ _
        (field_only (⟦<String as Deserialize<'de, R>>⟧.reads s.human R.lends) ⟦<String as RoundTrip<'de, R>>⟧.same v.sensor w.sensor _ _ _ _
        (last_field (⟦<i16 as Deserialize<'de, R>>⟧.reads s.human R.lends) ⟦<i16 as RoundTrip<'de, R>>⟧.same v.celsius w.celsius _)) ks i j
        in (x.0, x.1.0, x.1.1))) };
}

impl NeverNil for Reading {
    ghost never_nil = { λ s v. structure_other s _ };
}

impl<'de, R: ReadSlice<'de>> EndsInside<'de, R> for Reading {
    ghost ends_inside = { fields_inside _ _ _ (number_inside, (string_inside, (number_inside, tt))) };
}
