//! How the types of readings.rt are written and read. Written by tools/derive.py.
//!
//! Sum of Reading: 3aa93186.
//! Sum of Alarm: 3d94adbb.
ghost use Rattle.rmp_decode.specs.EnumRefusing.{RefusesEnum, with_content};
ghost use Rattle.rmp_decode.specs.FieldRefusing.{RefusesFields};
ghost use Rattle.rmp_decode.specs.Fields.{OfFields, Field, Absent, NoField};
ghost use Rattle.rmp_decode.specs.Refusing.{part_of};
ghost use Rattle.rmp_decode.specs.Rows.{ReadsEach};
ghost use Rattle.rmp_decode.specs.Variants.{OfVariant, Case, NoCase, Content};
ghost use Rattle.rmp_encode.specs.Refusals.{OfParts};
ghost use Rattle.rmp_encode.specs.Sizes.{one_of};
ghost use Rattle.rmp_encode.specs.Trees.{structure_of, newtype_variant_of, struct_variant_of};
ghost use Rattle.rmp_ends.specs.EnumEnds.{enum_inside, with_content_inside};
ghost use Rattle.rmp_ends.specs.FieldEnds.{fields_inside};
ghost use Rattle.rmp_ends.specs.LeafEnds.{string_inside};
ghost use Rattle.rmp_ends.specs.RowEnds.{each_inside, option_inside};
ghost use Rattle.rmp_round_trip.specs.AlikeData.{float64_alike, option_alike, slice_alike, text_alike, variant_alike};
ghost use Rattle.rmp_round_trip.specs.LeafRounds.{string_row, float64_other};
ghost use Rattle.rmp_round_trip.specs.OnlyFields.{AtPlace, content_fields, content_only, field_only, fields_both, last_field, variant_both};
ghost use Rattle.rmp_round_trip.specs.OnlyLeaves.{string_only};
ghost use Rattle.rmp_round_trip.specs.OnlyRows.{list_only, lowers_then, option_only};
ghost use Rattle.rmp_round_trip.specs.RoundTrip.{Only};
ghost use Rattle.rmp_round_trip.specs.Rounds.{each_some, each_row, option_some, option_row, slice_some, slice_row};
ghost use Rattle.rmp_round_trip.specs.StructRounds.{structure_all, struct_variant_all, structure_row, structure_other, fields_none, fields_cons};
ghost use Rattle.rmp_round_trip.specs.VariantRounds.{newtype_variant_other, struct_variant_other};
ghost use Rattle.rmp_round_trip.specs.VariantRounds.{newtype_variant_some, newtype_variant_row, struct_variant_row};
ghost use Rattle.rmp_types.specs.FloatRounds.{float_only, float_row, float_inside};
ghost use Rattle.rmp_types.specs.TimestampRounds.{time_alike, time_only, time_row, time_inside};
ghost use Rattle.std.proofs.Common.{refl};
ghost use Rattle.std.specs.Option.{is_none};
ghost use Rattle.std.specs.Prelude.{◌≡◌, ◌∷◌, [], None, codes, string_bytes};
ghost use Rattle.test_sent.specs.declared.readings.Alarm.TheVariants as the_alarm;

use super::{Alarm, Float64, Reading, Timestamp};
use rmp_decode::{Deserialize, Deserializer, ReadFields};
use rmp_encode::{Serialize, Serializer};
use rmp_ends::EndsInside;
use rmp_round_trip::{NeverNil, RoundTrip};
use rmp_wire::config::SerializerConfig;
use rmp_wire::{ReadSlice, Sink};

impl Serialize for Reading {
    ghost data_of = { λ v human. structure_of ((codes "name", ⟦<String as Serialize>⟧.data_of v.name human)
        ∷ ((codes "load", ⟦<Float64 as Serialize>⟧.data_of v.load human) ∷ ((codes "at", ⟦<Timestamp as Serialize>⟧.data_of v.at human) ∷ []))) };

    ghost is_value = { λ v. ⟦<String as Serialize>⟧.is_value v.name × ⟦<Float64 as Serialize>⟧.is_value v.load × ⟦<Timestamp as Serialize>⟧.is_value v.at };

    ghost takes_memory = { λ s. one_of (⟦<String as Serialize>⟧.takes_memory s
        ∷ (⟦<Float64 as Serialize>⟧.takes_memory s ∷ (⟦<Timestamp as Serialize>⟧.takes_memory s ∷ []))) };

    ghost refuses = { λ v. OfParts ⊥ (⟦<String as Serialize>⟧.refuses v.name
        ∷ (⟦<Float64 as Serialize>⟧.refuses v.load ∷ (⟦<Timestamp as Serialize>⟧.refuses v.at ∷ []))) };

    fn serialize<W: Sink, C: SerializerConfig>(
        &self,
        se: &mut Serializer<W, C>,
    ) -> Result<(), rmp_encode::Error> {
        let parts = rmp_encode::Three {
            first: &self.name,
            second: &self.load,
            third: &self.at,
        };
        se.serialize_fields("Reading", &["name", "load", "at"], &parts)
    }

    #[tactic(auto, using(rmp_encode::proofs::Fields::structure_no_byte))]
    fn as_u8(&self, _human: bool) -> Option<u8> {
        None
    }
}

impl<'de, R: ReadSlice<'de>> Deserialize<'de, R> for Reading {
    ghost reads = { λ human lends m v. OfFields (codes "name" ∷ (codes "load" ∷ (codes "at" ∷ [])))
        (Field (λ j. ⟦<String as Deserialize<'de, R>>⟧.reads human lends j v.name) (Absent ⟦<String as Deserialize<'de, R>>⟧.absent v.name)
        (Field (λ j. ⟦<Float64 as Deserialize<'de, R>>⟧.reads human lends j v.load) (Absent ⟦<Float64 as Deserialize<'de, R>>⟧.absent v.load)
        (Field (λ j. ⟦<Timestamp as Deserialize<'de, R>>⟧.reads human lends j v.at) (Absent ⟦<Timestamp as Deserialize<'de, R>>⟧.absent v.at) NoField))) m };

    ghost absent = { None };

    ghost refuses = { RefusesFields (codes "name" ∷ (codes "load" ∷ (codes "at" ∷ [])))
        (is_none ⟦<String as Deserialize<'de, R>>⟧.absent ∷
        (is_none ⟦<Float64 as Deserialize<'de, R>>⟧.absent ∷ (is_none ⟦<Timestamp as Deserialize<'de, R>>⟧.absent ∷ [])))
        (part_of ⟦<String as Deserialize<'de, R>>⟧.reads ⟦<String as Deserialize<'de, R>>⟧.refuses
        ∷ (part_of ⟦<Float64 as Deserialize<'de, R>>⟧.reads ⟦<Float64 as Deserialize<'de, R>>⟧.refuses
        ∷ (part_of ⟦<Timestamp as Deserialize<'de, R>>⟧.reads ⟦<Timestamp as Deserialize<'de, R>>⟧.refuses ∷ []))) };

    #[inline(always)]
    fn deserialize<C: SerializerConfig>(
        de: &mut Deserializer<R, C>,
    ) -> Result<Reading, rmp_decode::Error> {
        let read: Result<(String, (Float64, (Timestamp, ()))), rmp_decode::Error> =
            rmp_decode::read_fields_3(de, &["name", "load", "at"]);
        match read {
            Ok(parts) => {
                let (name, (load, (at, ()))) = parts;
                return Ok(Reading { name, load, at });
            }
            Err(e) => return Err(e),
        }
    }

    fn missing() -> Option<Reading> {
        None
    }
}

impl<'de, R: ReadSlice<'de>> RoundTrip<'de, R> for Reading {
    ghost has_data = { λ human v. structure_all ((codes "name", ⟦<String as Serialize>⟧.data_of v.name human)
        ∷ ((codes "load", ⟦<Float64 as Serialize>⟧.data_of v.load human) ∷ ((codes "at", ⟦<Timestamp as Serialize>⟧.data_of v.at human) ∷ [])))
        (refl, (refl, (refl, tt))) };

    ghost round = { λ lent s v fits. structure_row s (codes "name" ∷ (codes "load" ∷ (codes "at" ∷ []))) _ _ refl
        (fields_cons s (codes "name") _ _ _ (λ j. ⟦<String as Deserialize<'de, R>>⟧.reads s.human R.lends j v.name)
        (Absent ⟦<String as Deserialize<'de, R>>⟧.absent v.name) _ (string_row s (string_bytes v.name))
        (fields_cons s (codes "load") _ _ _ (λ j. ⟦<Float64 as Deserialize<'de, R>>⟧.reads s.human R.lends j v.load)
        (Absent ⟦<Float64 as Deserialize<'de, R>>⟧.absent v.load) _ (float_row s v.load.bits)
        (fields_cons s (codes "at") _ _ _ (λ j. ⟦<Timestamp as Deserialize<'de, R>>⟧.reads s.human R.lends j v.at)
        (Absent ⟦<Timestamp as Deserialize<'de, R>>⟧.absent v.at) _ (time_row s v.at.seconds v.at.nanoseconds fits.2.0 fits.2.1) (fields_none s)))) };

    ghost same = { λ v w. ⟦<String as RoundTrip<'de, R>>⟧.same v.name w.name × ⟦<Float64 as RoundTrip<'de, R>>⟧.same v.load w.load
        × ⟦<Timestamp as RoundTrip<'de, R>>⟧.same v.at w.at };

    ghost alike = { λ human v w h i. structure_of ((codes "name", (text_alike (string_bytes v.name) (string_bytes w.name) h.0 i))
        ∷ ((codes "load", (float64_alike v.load.bits w.load.bits h.1 i))
        ∷ ((codes "at", (time_alike v.at.seconds w.at.seconds v.at.nanoseconds w.at.nanoseconds h.2 i)) ∷ []))) };

    ghost only = { λ s v fits. lowers_then s _ _ (λ m. (w : _) → (⟦<Reading as Deserialize<'de, R>>⟧.reads s.human R.lends) m w
        → ⟦<String as RoundTrip<'de, R>>⟧.same v.name w.name × ⟦<Float64 as RoundTrip<'de, R>>⟧.same v.load w.load
        × ⟦<Timestamp as RoundTrip<'de, R>>⟧.same v.at w.at)
        (structure_row s (codes "name" ∷ (codes "load" ∷ (codes "at" ∷ []))) _ _ refl
        (fields_cons s (codes "name") _ _ _ (λ j. Only (⟦<String as Deserialize<'de, R>>⟧.reads s.human R.lends) ⟦<String as RoundTrip<'de, R>>⟧.same j
        v.name) ⊥ _ (string_only s (λ w. string_bytes w) (string_bytes v.name))
        (fields_cons s (codes "load") _ _ _ (λ j. Only (⟦<Float64 as Deserialize<'de, R>>⟧.reads s.human R.lends) ⟦<Float64 as RoundTrip<'de, R>>⟧.same j
        v.load) ⊥ _ (float_only s v.load.bits) (fields_cons s (codes "at") _ _ _
        (λ j. Only (⟦<Timestamp as Deserialize<'de, R>>⟧.reads s.human R.lends) ⟦<Timestamp as RoundTrip<'de, R>>⟧.same j v.at) ⊥ _
        (time_only s v.at.seconds v.at.nanoseconds fits.2.0 fits.2.1) (fields_none s)))))
        (λ m q w r. fields_both (codes "name" ∷ (codes "load" ∷ (codes "at" ∷ []))) _ _ _ m q r
        (λ ks i j. let x = field_only (⟦<String as Deserialize<'de, R>>⟧.reads s.human R.lends) ⟦<String as RoundTrip<'de, R>>⟧.same v.name w.name _ _ _ _
        (field_only (⟦<Float64 as Deserialize<'de, R>>⟧.reads s.human R.lends) ⟦<Float64 as RoundTrip<'de, R>>⟧.same v.load w.load _ _ _ _
        (last_field (⟦<Timestamp as Deserialize<'de, R>>⟧.reads s.human R.lends) ⟦<Timestamp as RoundTrip<'de, R>>⟧.same v.at w.at _)) ks i j
        in (x.0, x.1.0, x.1.1))) };
}

impl NeverNil for Reading {
    ghost never_nil = { λ s v. structure_other s _ };
}

impl<'de, R: ReadSlice<'de>> EndsInside<'de, R> for Reading {
    ghost ends_inside = { fields_inside _ _ _ (string_inside, (float_inside, (time_inside, tt))) };
}

impl Serialize for Alarm {
    ghost data_of = { λ v human. elim v [
      | the_alarm.Silent a1 a2 ↦ struct_variant_of (codes "Silent")
          ((codes "since", ⟦<Timestamp as Serialize>⟧.data_of a1 human) ∷ ((codes "last", ⟦<Option<Float64> as Serialize>⟧.data_of a2 human) ∷ []))
      | the_alarm.Above a1 ↦ newtype_variant_of (codes "Above") (⟦<Vec<Float64> as Serialize>⟧.data_of a1 human)
    ] };

    ghost is_value = { λ v. elim v [
      | the_alarm.Silent a1 a2 ↦ ⟦<Timestamp as Serialize>⟧.is_value a1
          × ⟦<Option<Float64> as Serialize>⟧.is_value a2
      | the_alarm.Above a1 ↦ ⟦<Vec<Float64> as Serialize>⟧.is_value a1
    ] };

    ghost takes_memory = { λ s. one_of (one_of (⟦<Timestamp as Serialize>⟧.takes_memory s ∷ (⟦<Option<Float64> as Serialize>⟧.takes_memory s ∷ []))
        ∷ (⟦<Vec<Float64> as Serialize>⟧.takes_memory s ∷ [])) };

    ghost refuses = { λ v. elim v [
      | the_alarm.Silent a1 a2 ↦ OfParts ⊥
          (⟦<Timestamp as Serialize>⟧.refuses a1 ∷ (⟦<Option<Float64> as Serialize>⟧.refuses a2 ∷ []))
      | the_alarm.Above a1 ↦ OfParts ⊥
          (⟦<Vec<Float64> as Serialize>⟧.refuses a1 ∷ [])
    ] };

    fn serialize<W: Sink, C: SerializerConfig>(
        &self,
        se: &mut Serializer<W, C>,
    ) -> Result<(), rmp_encode::Error> {
        match self {
            Alarm::Silent { since, last } => {
                let parts = rmp_encode::Both {
                    first: since,
                    second: last,
                };
                se.serialize_struct_variant_of("Alarm", 0, "Silent", &["since", "last"], &parts)
            }
            Alarm::Above(first) => se.serialize_newtype_variant("Alarm", 1, "Above", first),
        }
    }

    fn as_u8(&self, _human: bool) -> Option<u8> {
        match self {
            Alarm::Silent { .. } => None,
            Alarm::Above(_) => None,
        }
    }
}

impl<'de, R: ReadSlice<'de>> Deserialize<'de, R> for Alarm {
    ghost reads = { λ human lends m v. OfVariant (codes "Silent" ∷ (codes "Above" ∷ []))
        (Case (λ c. (a1 : _) × (a2 : _) × (v ≡ the_alarm.Silent a1 a2)
        × Content (λ k. OfFields (codes "since" ∷ (codes "last" ∷ []))
        (Field (λ j. ⟦<Timestamp as Deserialize<'de, R>>⟧.reads human lends j a1) (Absent ⟦<Timestamp as Deserialize<'de, R>>⟧.absent a1)
        (Field (λ j. ⟦<Option<Float64> as Deserialize<'de, R>>⟧.reads human lends j a2) (Absent ⟦<Option<Float64> as Deserialize<'de, R>>⟧.absent a2)
        NoField)) k) c) (Case (λ c. (a1 : _) × (v ≡ the_alarm.Above a1) × Content (λ k. ⟦<Vec<Float64> as Deserialize<'de, R>>⟧.reads human lends k a1) c)
        NoCase)) m };

    ghost absent = { None };

    ghost refuses = { RefusesEnum (codes "Silent" ∷ (codes "Above" ∷ []))
        (with_content (RefusesFields (codes "since" ∷ (codes "last" ∷ [])) ⟦<(Timestamp, (Option<Float64>, ())) as ReadFields<'de, R>>⟧.needed
        ⟦<(Timestamp, (Option<Float64>, ())) as ReadFields<'de, R>>⟧.parts) ∷ (with_content (⟦<Vec<Float64> as Deserialize<'de, R>>⟧.refuses) ∷ [])) };

    fn deserialize<C: SerializerConfig>(
        de: &mut Deserializer<R, C>,
    ) -> Result<Alarm, rmp_decode::Error> {
        match de.deserialize_enum(&["Silent", "Above"]) {
            Ok((0, variant)) => match variant.fields_variant(&["since", "last"]) {
                Ok(parts) => {
                    let (since, (last, ())) = parts;
                    return Ok(Alarm::Silent { since, last });
                }
                Err(e) => return Err(e),
            },
            Ok((_, variant)) => match variant.newtype_variant() {
                Ok(first) => return Ok(Alarm::Above(first)),
                Err(e) => return Err(e),
            },
            Err(e) => return Err(e),
        }
    }

    fn missing() -> Option<Alarm> {
        None
    }
}

impl<'de, R: ReadSlice<'de>> RoundTrip<'de, R> for Alarm {
    ghost has_data = { λ human. elim [
      | the_alarm.Silent a1 a2 ↦ struct_variant_all (codes "Silent")
          ((codes "since", ⟦<Timestamp as Serialize>⟧.data_of a1 human) ∷ ((codes "last", ⟦<Option<Float64> as Serialize>⟧.data_of a2 human) ∷ []))
          (refl, ((option_some (λ x. ⟦<Float64 as Serialize>⟧.data_of x human) (λ x1. refl) a2), tt))
      | the_alarm.Above a1 ↦ newtype_variant_some
          (codes "Above") (⟦<Vec<Float64> as Serialize>⟧.data_of a1 human)
          (slice_some _ (each_some (λ x. ⟦<Float64 as Serialize>⟧.data_of x human) (λ x2. refl) a1.items))
    ] };

    ghost round = { λ lent s. let names = codes "Silent" ∷ (codes "Above" ∷ [])
        in elim [
          | the_alarm.Silent a1 a2 ↦ λ fits. struct_variant_row s names (codes "Silent") 0 refl _ (codes "since" ∷ (codes "last" ∷ [])) _ _ refl
              (λ m h. (a1, a2, refl, h)) (fields_cons s (codes "since") _ _ _ (λ j. ⟦<Timestamp as Deserialize<'de, R>>⟧.reads s.human R.lends j a1)
              (Absent ⟦<Timestamp as Deserialize<'de, R>>⟧.absent a1) _ (time_row s a1.seconds a1.nanoseconds fits.0.0 fits.0.1)
              (fields_cons s (codes "last") _ _ _ (λ j. ⟦<Option<Float64> as Deserialize<'de, R>>⟧.reads s.human R.lends j a2)
              (Absent ⟦<Option<Float64> as Deserialize<'de, R>>⟧.absent a2) _
              (option_row s (λ x. ⟦<Float64 as Serialize>⟧.data_of x s.human) ⟦<Float64 as Serialize>⟧.is_value
              (⟦<Float64 as Deserialize<'de, R>>⟧.reads s.human R.lends) (λ x4. float64_other s x4.bits) (λ x3 h3. (float_row s x3.bits)) a2 fits.1)
              (fields_none s)))
          | the_alarm.Above a1 ↦ λ fits. newtype_variant_row s names (codes "Above") 1 refl _ _
              (λ j. ⟦<Vec<Float64> as Deserialize<'de, R>>⟧.reads s.human R.lends j a1) (λ m h. (a1, refl, h))
              (slice_row s _ (λ ms. ReadsEach (⟦<Float64 as Deserialize<'de, R>>⟧.reads s.human R.lends) ms a1.items)
              (each_row s (λ x. ⟦<Float64 as Serialize>⟧.data_of x s.human) ⟦<Float64 as Serialize>⟧.is_value
              (⟦<Float64 as Deserialize<'de, R>>⟧.reads s.human R.lends) (λ x5 h5. (float_row s x5.bits)) a1.items fits))
        ] };

    ghost same = { λ v w. elim v [
      | the_alarm.Silent a1 a2 ↦ (b1 : _) × (b2 : _) × (w ≡ the_alarm.Silent b1 b2)
          × ⟦<Timestamp as RoundTrip<'de, R>>⟧.same a1 b1 × ⟦<Option<Float64> as RoundTrip<'de, R>>⟧.same a2 b2
      | the_alarm.Above a1 ↦ (b1 : _)
          × (w ≡ the_alarm.Above b1) × ⟦<Vec<Float64> as RoundTrip<'de, R>>⟧.same a1 b1
    ] };

    ghost alike = { λ human. elim [
      | the_alarm.Silent a1 a2 ↦ λ w h. variant_alike (λ x. ⟦<Alarm as Serialize>⟧.data_of x human) w
          (the_alarm.Silent h.0 h.1) h.2 (λ i. struct_variant_of (codes "Silent")
          ((codes "since", (time_alike a1.seconds h.0.seconds a1.nanoseconds h.0.nanoseconds h.3 i))
          ∷ ((
            codes "last",
            (option_alike ⟦<Float64 as RoundTrip<'de, R>>⟧.same (λ x. ⟦<Float64 as Serialize>⟧.data_of x human)
                (λ x4 yx4 h4 i. (float64_alike x4.bits yx4.bits h4 i)) a2 h.1 h.4 i),
          ) ∷ [])))
      | the_alarm.Above a1 ↦ λ w h. variant_alike
          (λ x. ⟦<Alarm as Serialize>⟧.data_of x human) w (the_alarm.Above h.0) h.1
          (λ i. newtype_variant_of (codes "Above") (slice_alike ⟦<Float64 as RoundTrip<'de, R>>⟧.same (λ x. ⟦<Float64 as Serialize>⟧.data_of x human)
          (λ x5 yx5 h5 i. (float64_alike x5.bits yx5.bits h5 i)) a1.items h.0.items h.2 i))
    ] };

    ghost only = { λ s. let names = codes "Silent" ∷ (codes "Above" ∷ [])
        in elim [
          | the_alarm.Silent a1 a2 ↦ λ fits. lowers_then s _ _ (λ m. (w : _) → (⟦<Alarm as Deserialize<'de, R>>⟧.reads s.human R.lends) m w
              → (b1 : _) × (b2 : _) × (w ≡ the_alarm.Silent b1 b2) × ⟦<Timestamp as RoundTrip<'de, R>>⟧.same a1 b1
              × ⟦<Option<Float64> as RoundTrip<'de, R>>⟧.same a2 b2)
              (struct_variant_row s names (codes "Silent") 0 refl
              (AtPlace 0 (Content (OfFields (codes "since" ∷ (codes "last" ∷ []))
              (Field (λ j. Only (⟦<Timestamp as Deserialize<'de, R>>⟧.reads s.human R.lends) ⟦<Timestamp as RoundTrip<'de, R>>⟧.same j a1) ⊥
              (Field (λ j. Only (⟦<Option<Float64> as Deserialize<'de, R>>⟧.reads s.human R.lends) ⟦<Option<Float64> as RoundTrip<'de, R>>⟧.same j a2) ⊥
              NoField))))) (codes "since" ∷ (codes "last" ∷ [])) _ _ refl (λ m h. (refl, h))
              (fields_cons s (codes "since") _ _ _ (λ j. Only (⟦<Timestamp as Deserialize<'de, R>>⟧.reads s.human R.lends) ⟦<Timestamp as RoundTrip<'de, R>>⟧.same
              j a1) ⊥ _ (time_only s a1.seconds a1.nanoseconds fits.0.0 fits.0.1)
              (fields_cons s (codes "last") _ _ _ (λ j. Only (⟦<Option<Float64> as Deserialize<'de, R>>⟧.reads s.human R.lends)
              ⟦<Option<Float64> as RoundTrip<'de, R>>⟧.same j a2) ⊥ _
              (option_only s _ (⟦<Float64 as Deserialize<'de, R>>⟧.reads s.human R.lends) ⟦<Float64 as RoundTrip<'de, R>>⟧.same a2
              (option_row s (λ x. ⟦<Float64 as Serialize>⟧.data_of x s.human) ⟦<Float64 as Serialize>⟧.is_value
              (Only (⟦<Float64 as Deserialize<'de, R>>⟧.reads s.human R.lends) ⟦<Float64 as RoundTrip<'de, R>>⟧.same) (λ x2. float64_other s x2.bits)
              (λ x1 h1. (float_only s x1.bits)) a2 fits.1)) (fields_none s))))
              (λ m q w r. variant_both names 0 _ _ _ m q r (λ c a b. content_fields (codes "since" ∷ (codes "last" ∷ [])) _ _ _ c a b.3
              (λ ks i j. let x = field_only (⟦<Timestamp as Deserialize<'de, R>>⟧.reads s.human R.lends) ⟦<Timestamp as RoundTrip<'de, R>>⟧.same a1 b.0 _ _ _ _
              (last_field (⟦<Option<Float64> as Deserialize<'de, R>>⟧.reads s.human R.lends) ⟦<Option<Float64> as RoundTrip<'de, R>>⟧.same a2 b.1 _) ks i j
              in (b.0, b.1, b.2, x.0, x.1))))
          | the_alarm.Above a1 ↦ λ fits. lowers_then s _ _ (λ m. (w : _)
              → (⟦<Alarm as Deserialize<'de, R>>⟧.reads s.human R.lends) m w
              → (b1 : _) × (w ≡ the_alarm.Above b1) × ⟦<Vec<Float64> as RoundTrip<'de, R>>⟧.same a1 b1)
              (newtype_variant_row s names (codes "Above") 1 refl
              (AtPlace 1 (Content (λ j. Only (⟦<Vec<Float64> as Deserialize<'de, R>>⟧.reads s.human R.lends) ⟦<Vec<Float64> as RoundTrip<'de, R>>⟧.same j a1))) _
              (λ j. Only (⟦<Vec<Float64> as Deserialize<'de, R>>⟧.reads s.human R.lends) ⟦<Vec<Float64> as RoundTrip<'de, R>>⟧.same j a1) (λ m h. (refl, h))
              (list_only s _ (λ w. w.items) (⟦<Float64 as Deserialize<'de, R>>⟧.reads s.human R.lends) ⟦<Float64 as RoundTrip<'de, R>>⟧.same a1.items
              (slice_row s _ (λ ms. ReadsEach (Only (⟦<Float64 as Deserialize<'de, R>>⟧.reads s.human R.lends) ⟦<Float64 as RoundTrip<'de, R>>⟧.same) ms a1.items)
              (each_row s (λ x. ⟦<Float64 as Serialize>⟧.data_of x s.human) ⟦<Float64 as Serialize>⟧.is_value
              (Only (⟦<Float64 as Deserialize<'de, R>>⟧.reads s.human R.lends) ⟦<Float64 as RoundTrip<'de, R>>⟧.same) (λ x3 h3. (float_only s x3.bits)) a1.items
              fits)))) (λ m q w r. variant_both names 1 _ _ _ m q r
              (λ c a b. (
                b.0,
                b.1,
                content_only (⟦<Vec<Float64> as Deserialize<'de, R>>⟧.reads s.human R.lends) ⟦<Vec<Float64> as RoundTrip<'de, R>>⟧.same a1 b.0
                    c a b.2,
              )))
        ] };
}

impl NeverNil for Alarm {
    ghost never_nil = { λ s. elim [
      | the_alarm.Silent a1 a2 ↦ struct_variant_other s (codes "Silent") _
      | the_alarm.Above a1 ↦ newtype_variant_other s
          (codes "Above") _
    ] };
}

impl<'de, R: ReadSlice<'de>> EndsInside<'de, R> for Alarm {
    ghost ends_inside = { enum_inside _ _ (
      with_content_inside _
          (fields_inside _ _ _ (time_inside, ((option_inside ⟦<Float64 as Deserialize<'de, R>>⟧.refuses float_inside), tt))),
      (with_content_inside _ ((each_inside ⟦<Float64 as Deserialize<'de, R>>⟧.reads ⟦<Float64 as Deserialize<'de, R>>⟧.refuses float_inside)), tt),
    ) };
}
