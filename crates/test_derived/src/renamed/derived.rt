//! How the types of renamed.rt are written and read. Written by tools/derive.py.
//!
//! Sum of Parcel: c978ed3c.
//! Sum of Way: 50b35616.
ghost use Rattle.rmp_decode.specs.EnumRefusing.{RefusesEnum, no_content, with_content};
ghost use Rattle.rmp_decode.specs.FieldRefusing.{RefusesFields};
ghost use Rattle.rmp_decode.specs.Fields.{OfFields, Field, Absent, NoField};
ghost use Rattle.rmp_decode.specs.Refusing.{part_of};
ghost use Rattle.rmp_decode.specs.Variants.{OfVariant, Case, NoCase, Bare, Content};
ghost use Rattle.rmp_encode.specs.Data.{unit_variant};
ghost use Rattle.rmp_encode.specs.Refusals.{OfParts, OfSink};
ghost use Rattle.rmp_encode.specs.Sizes.{one_of};
ghost use Rattle.rmp_encode.specs.Trees.{structure_of, newtype_variant_of, struct_variant_of};
ghost use Rattle.rmp_ends.specs.EnumEnds.{enum_inside, no_content_inside, with_content_inside};
ghost use Rattle.rmp_ends.specs.FieldEnds.{fields_inside};
ghost use Rattle.rmp_ends.specs.LeafEnds.{number_inside, string_inside};
ghost use Rattle.rmp_ends.specs.RowEnds.{option_inside};
ghost use Rattle.rmp_round_trip.specs.AlikeData.{option_alike, text_alike, variant_alike};
ghost use Rattle.rmp_round_trip.specs.LeafRounds.{byte_row, unsigned_row_16, unsigned_row_64, string_row, pos_other};
ghost use Rattle.rmp_round_trip.specs.OnlyFields.{AtPlace, AnyContent, content_fields, content_only, field_only, fields_both, last_field, variant_both};
ghost use Rattle.rmp_round_trip.specs.OnlyLeaves.{byte_only, unsigned_only, string_only};
ghost use Rattle.rmp_round_trip.specs.OnlyRows.{lowers_then, option_only};
ghost use Rattle.rmp_round_trip.specs.RoundTrip.{Only};
ghost use Rattle.rmp_round_trip.specs.Rounds.{option_some, option_row};
ghost use Rattle.rmp_round_trip.specs.StructRounds.{structure_all, struct_variant_all, structure_row, structure_other, fields_none, fields_cons};
ghost use Rattle.rmp_round_trip.specs.VariantRounds.{bare_other, newtype_variant_other, struct_variant_other};
ghost use Rattle.rmp_round_trip.specs.VariantRounds.{newtype_variant_some, bare_row, newtype_variant_row, struct_variant_row};
ghost use Rattle.std.proofs.Common.{refl};
ghost use Rattle.std.specs.Option.{is_none};
ghost use Rattle.std.specs.Prelude.{◌≡◌, ◌∷◌, [], None, Some, codes, false, ⊤, string_bytes};
ghost use Rattle.test_derived.specs.declared.renamed.Way.TheVariants as the_way;

use super::{Parcel, Way};
use rmp_decode::{Deserialize, Deserializer, ReadFields};
use rmp_encode::{Serialize, Serializer};
use rmp_ends::EndsInside;
use rmp_round_trip::{NeverNil, RoundTrip};
use rmp_wire::config::SerializerConfig;
use rmp_wire::{ReadSlice, Sink};

impl Serialize for Parcel {
    ghost data_of = { λ v human. structure_of ((codes "sentBy", ⟦<String as Serialize>⟧.data_of v.sent_by human)
        ∷ ((codes "type", ⟦<u8 as Serialize>⟧.data_of v.kind human) ∷ ((codes "paidAt", ⟦<Option<u64> as Serialize>⟧.data_of v.paid_at human) ∷ []))) };

    ghost is_value = { λ v. ⟦<String as Serialize>⟧.is_value v.sent_by × ⟦<u8 as Serialize>⟧.is_value v.kind
        × ⟦<Option<u64> as Serialize>⟧.is_value v.paid_at };

    ghost takes_memory = { λ s. one_of (⟦<String as Serialize>⟧.takes_memory s
        ∷ (⟦<u8 as Serialize>⟧.takes_memory s ∷ (⟦<Option<u64> as Serialize>⟧.takes_memory s ∷ []))) };

    ghost refuses = { λ v. OfParts ⊥ (⟦<String as Serialize>⟧.refuses v.sent_by
        ∷ (⟦<u8 as Serialize>⟧.refuses v.kind ∷ (⟦<Option<u64> as Serialize>⟧.refuses v.paid_at ∷ []))) };

    fn serialize<W: Sink, C: SerializerConfig>(
        &self,
        se: &mut Serializer<W, C>,
    ) -> Result<(), rmp_encode::Error> {
        let parts = rmp_encode::Three {
            first: &self.sent_by,
            second: &self.kind,
            third: &self.paid_at,
        };
        se.serialize_fields("Parcel", &["sentBy", "type", "paidAt"], &parts)
    }

    #[tactic(auto, using(rmp_encode::proofs::Fields::structure_no_byte))]
    fn as_u8(&self, _human: bool) -> Option<u8> {
        None
    }
}

impl<'de, R: ReadSlice<'de>> Deserialize<'de, R> for Parcel {
    ghost reads = { λ human lends m v. OfFields (codes "sentBy" ∷ (codes "type" ∷ (codes "paidAt" ∷ [])))
        (Field (λ j. ⟦<String as Deserialize<'de, R>>⟧.reads human lends j v.sent_by) (Absent ⟦<String as Deserialize<'de, R>>⟧.absent v.sent_by)
        (Field (λ j. ⟦<u8 as Deserialize<'de, R>>⟧.reads human lends j v.kind) (Absent ⟦<u8 as Deserialize<'de, R>>⟧.absent v.kind)
        (Field (λ j. ⟦<Option<u64> as Deserialize<'de, R>>⟧.reads human lends j v.paid_at) (Absent ⟦<Option<u64> as Deserialize<'de, R>>⟧.absent v.paid_at)
        NoField))) m };

    ghost absent = { None };

    ghost refuses = { RefusesFields (codes "sentBy" ∷ (codes "type" ∷ (codes "paidAt" ∷ [])))
        (is_none ⟦<String as Deserialize<'de, R>>⟧.absent ∷
        (is_none ⟦<u8 as Deserialize<'de, R>>⟧.absent ∷ (is_none ⟦<Option<u64> as Deserialize<'de, R>>⟧.absent ∷ [])))
        (part_of ⟦<String as Deserialize<'de, R>>⟧.reads ⟦<String as Deserialize<'de, R>>⟧.refuses
        ∷ (part_of ⟦<u8 as Deserialize<'de, R>>⟧.reads ⟦<u8 as Deserialize<'de, R>>⟧.refuses
        ∷ (part_of ⟦<Option<u64> as Deserialize<'de, R>>⟧.reads ⟦<Option<u64> as Deserialize<'de, R>>⟧.refuses ∷ []))) };

    #[inline(always)]
    fn deserialize<C: SerializerConfig>(
        de: &mut Deserializer<R, C>,
    ) -> Result<Parcel, rmp_decode::Error> {
        let read: Result<(String, (u8, (Option<u64>, ()))), rmp_decode::Error> =
            rmp_decode::read_fields_3(de, &["sentBy", "type", "paidAt"]);
        match read {
            Ok(parts) => {
                let (sent_by, (kind, (paid_at, ()))) = parts;
                return Ok(Parcel {
                    sent_by,
                    kind,
                    paid_at,
                });
            }
            Err(e) => return Err(e),
        }
    }

    fn missing() -> Option<Parcel> {
        None
    }
}

impl<'de, R: ReadSlice<'de>> RoundTrip<'de, R> for Parcel {
    ghost has_data = { λ human v. structure_all ((codes "sentBy", ⟦<String as Serialize>⟧.data_of v.sent_by human)
        ∷ ((codes "type", ⟦<u8 as Serialize>⟧.data_of v.kind human) ∷ ((codes "paidAt", ⟦<Option<u64> as Serialize>⟧.data_of v.paid_at human) ∷ [])))
        (refl, (refl, ((option_some (λ x. ⟦<u64 as Serialize>⟧.data_of x human) (λ x1. refl) v.paid_at), tt))) };

    ghost round = { λ lent s v fits. structure_row s (codes "sentBy" ∷ (codes "type" ∷ (codes "paidAt" ∷ []))) _ _ refl
        (fields_cons s (codes "sentBy") _ _ _ (λ j. ⟦<String as Deserialize<'de, R>>⟧.reads s.human R.lends j v.sent_by)
        (Absent ⟦<String as Deserialize<'de, R>>⟧.absent v.sent_by) _ (string_row s (string_bytes v.sent_by))
        (fields_cons s (codes "type") _ _ _ (λ j. ⟦<u8 as Deserialize<'de, R>>⟧.reads s.human R.lends j v.kind)
        (Absent ⟦<u8 as Deserialize<'de, R>>⟧.absent v.kind) _ (byte_row s v.kind fits.1)
        (fields_cons s (codes "paidAt") _ _ _ (λ j. ⟦<Option<u64> as Deserialize<'de, R>>⟧.reads s.human R.lends j v.paid_at)
        (Absent ⟦<Option<u64> as Deserialize<'de, R>>⟧.absent v.paid_at) _
        (option_row s (λ x. ⟦<u64 as Serialize>⟧.data_of x s.human) ⟦<u64 as Serialize>⟧.is_value (⟦<u64 as Deserialize<'de, R>>⟧.reads s.human R.lends)
        (λ x3. pos_other s x3) (λ x2 h2. (unsigned_row_64 s x2 h2)) v.paid_at fits.2) (fields_none s)))) };

    ghost same = { λ v w. ⟦<String as RoundTrip<'de, R>>⟧.same v.sent_by w.sent_by × ⟦<u8 as RoundTrip<'de, R>>⟧.same v.kind w.kind
        × ⟦<Option<u64> as RoundTrip<'de, R>>⟧.same v.paid_at w.paid_at };

    ghost alike = { λ human v w h i. structure_of ((codes "sentBy", (text_alike (string_bytes v.sent_by) (string_bytes w.sent_by) h.0 i))
        ∷ ((codes "type", (⟦<u8 as Serialize>⟧.data_of (h.1 i) human))
        ∷ ((
          codes "paidAt",
          (option_alike ⟦<u64 as RoundTrip<'de, R>>⟧.same (λ x. ⟦<u64 as Serialize>⟧.data_of x human)
              (λ x3 yx3 h3 i. (⟦<u64 as Serialize>⟧.data_of (h3 i) human)) v.paid_at w.paid_at h.2 i),
        ) ∷ []))) };

    ghost only = { λ s v fits. lowers_then s _ _ (λ m. (w : _) → (⟦<Parcel as Deserialize<'de, R>>⟧.reads s.human R.lends) m w
        → ⟦<String as RoundTrip<'de, R>>⟧.same v.sent_by w.sent_by × ⟦<u8 as RoundTrip<'de, R>>⟧.same v.kind w.kind
        × ⟦<Option<u64> as RoundTrip<'de, R>>⟧.same v.paid_at w.paid_at)
        (structure_row s (codes "sentBy" ∷ (codes "type" ∷ (codes "paidAt" ∷ []))) _ _ refl
        (fields_cons s (codes "sentBy") _ _ _ (λ j. Only (⟦<String as Deserialize<'de, R>>⟧.reads s.human R.lends) ⟦<String as RoundTrip<'de, R>>⟧.same j
        v.sent_by) ⊥ _ (string_only s (λ w. string_bytes w) (string_bytes v.sent_by))
        (fields_cons s (codes "type") _ _ _ (λ j. Only (⟦<u8 as Deserialize<'de, R>>⟧.reads s.human R.lends) ⟦<u8 as RoundTrip<'de, R>>⟧.same j v.kind) ⊥ _
        (byte_only s v.kind) (fields_cons s (codes "paidAt") _ _ _
        (λ j. Only (⟦<Option<u64> as Deserialize<'de, R>>⟧.reads s.human R.lends) ⟦<Option<u64> as RoundTrip<'de, R>>⟧.same j v.paid_at) ⊥ _
        (option_only s _ (⟦<u64 as Deserialize<'de, R>>⟧.reads s.human R.lends) ⟦<u64 as RoundTrip<'de, R>>⟧.same v.paid_at
        (option_row s (λ x. ⟦<u64 as Serialize>⟧.data_of x s.human) ⟦<u64 as Serialize>⟧.is_value
        (Only (⟦<u64 as Deserialize<'de, R>>⟧.reads s.human R.lends) ⟦<u64 as RoundTrip<'de, R>>⟧.same) (λ x2. pos_other s x2)
        (λ x1 h1. (unsigned_only s 18446744073709551615 x1)) v.paid_at fits.2)) (fields_none s)))))
        (λ m q w r. fields_both (codes "sentBy" ∷ (codes "type" ∷ (codes "paidAt" ∷ []))) _ _ _ m q r
        (λ ks i j. let x = field_only (⟦<String as Deserialize<'de, R>>⟧.reads s.human R.lends) ⟦<String as RoundTrip<'de, R>>⟧.same v.sent_by w.sent_by _ _
        _ _ (field_only (⟦<u8 as Deserialize<'de, R>>⟧.reads s.human R.lends) ⟦<u8 as RoundTrip<'de, R>>⟧.same v.kind w.kind _ _ _ _
        (last_field (⟦<Option<u64> as Deserialize<'de, R>>⟧.reads s.human R.lends) ⟦<Option<u64> as RoundTrip<'de, R>>⟧.same v.paid_at w.paid_at _)) ks i j
        in (x.0, x.1.0, x.1.1))) };
}

impl NeverNil for Parcel {
    ghost never_nil = { λ s v. structure_other s _ };
}

impl<'de, R: ReadSlice<'de>> EndsInside<'de, R> for Parcel {
    ghost ends_inside = { fields_inside _ _ _ (string_inside, (number_inside, ((option_inside ⟦<u64 as Deserialize<'de, R>>⟧.refuses number_inside), tt))) };
}

impl Serialize for Way {
    ghost data_of = { λ v human. elim v [
      | the_way.ByAir ↦ Some (unit_variant (codes "by-air"))
      | the_way.OverLand a1 a2 ↦ struct_variant_of
          (codes "over-land") ((codes "daysLeft", ⟦<u8 as Serialize>⟧.data_of a1 human) ∷ ((codes "by", ⟦<String as Serialize>⟧.data_of a2 human) ∷ []))
      | the_way.AcrossTheSea a1 ↦ newtype_variant_of (codes "sea") (⟦<u16 as Serialize>⟧.data_of a1 human)
    ] };

    ghost is_value = { λ v. elim v [
      | the_way.ByAir ↦ ⊤
      | the_way.OverLand a1 a2 ↦ ⟦<u8 as Serialize>⟧.is_value a1
          × ⟦<String as Serialize>⟧.is_value a2
      | the_way.AcrossTheSea a1 ↦ ⟦<u16 as Serialize>⟧.is_value a1
    ] };

    ghost takes_memory = { λ s. one_of (false ∷ (one_of (⟦<u8 as Serialize>⟧.takes_memory s ∷ (⟦<String as Serialize>⟧.takes_memory s ∷ []))
        ∷ (⟦<u16 as Serialize>⟧.takes_memory s ∷ []))) };

    ghost refuses = { λ v. elim v [
      | the_way.ByAir ↦ OfSink
      | the_way.OverLand a1 a2 ↦ OfParts ⊥
          (⟦<u8 as Serialize>⟧.refuses a1 ∷ (⟦<String as Serialize>⟧.refuses a2 ∷ []))
      | the_way.AcrossTheSea a1 ↦ OfParts ⊥
          (⟦<u16 as Serialize>⟧.refuses a1 ∷ [])
    ] };

    #[tactic(auto, unfolding(rmp_encode::specs::Data::lower))]
    fn serialize<W: Sink, C: SerializerConfig>(
        &self,
        se: &mut Serializer<W, C>,
    ) -> Result<(), rmp_encode::Error> {
        match self {
            Way::ByAir => se.serialize_unit_variant("Way", 0, "by-air"),
            Way::OverLand { days_left, by } => {
                let parts = rmp_encode::Both {
                    first: days_left,
                    second: by,
                };
                se.serialize_struct_variant_of("Way", 1, "over-land", &["daysLeft", "by"], &parts)
            }
            Way::AcrossTheSea(first) => se.serialize_newtype_variant("Way", 2, "sea", first),
        }
    }

    fn as_u8(&self, _human: bool) -> Option<u8> {
        match self {
            Way::ByAir => None,
            Way::OverLand { .. } => None,
            Way::AcrossTheSea(_) => None,
        }
    }
}

impl<'de, R: ReadSlice<'de>> Deserialize<'de, R> for Way {
    ghost reads = { λ human lends m v. OfVariant (codes "by-air" ∷ (codes "over-land" ∷ (codes "sea" ∷ [])))
        (Case (λ c. (v ≡ the_way.ByAir) × Bare c) (Case (λ c. (a1 : _) × (a2 : _) × (v ≡ the_way.OverLand a1 a2)
        × Content (λ k. OfFields (codes "daysLeft" ∷ (codes "by" ∷ []))
        (Field (λ j. ⟦<u8 as Deserialize<'de, R>>⟧.reads human lends j a1) (Absent ⟦<u8 as Deserialize<'de, R>>⟧.absent a1)
        (Field (λ j. ⟦<String as Deserialize<'de, R>>⟧.reads human lends j a2) (Absent ⟦<String as Deserialize<'de, R>>⟧.absent a2) NoField)) k) c)
        (Case (λ c. (a1 : _) × (v ≡ the_way.AcrossTheSea a1) × Content (λ k. ⟦<u16 as Deserialize<'de, R>>⟧.reads human lends k a1) c) NoCase))) m };

    ghost absent = { None };

    ghost refuses = { RefusesEnum (codes "by-air" ∷ (codes "over-land" ∷ (codes "sea" ∷ [])))
        (no_content ∷ (with_content (RefusesFields (codes "daysLeft" ∷ (codes "by" ∷ [])) ⟦<(u8, (String, ())) as ReadFields<'de, R>>⟧.needed
        ⟦<(u8, (String, ())) as ReadFields<'de, R>>⟧.parts) ∷ (with_content (⟦<u16 as Deserialize<'de, R>>⟧.refuses) ∷ []))) };

    fn deserialize<C: SerializerConfig>(
        de: &mut Deserializer<R, C>,
    ) -> Result<Way, rmp_decode::Error> {
        match de.deserialize_enum(&["by-air", "over-land", "sea"]) {
            Ok((0, variant)) => match variant.unit_variant() {
                Ok(()) => return Ok(Way::ByAir),
                Err(e) => return Err(e),
            },
            Ok((1, variant)) => match variant.fields_variant(&["daysLeft", "by"]) {
                Ok(parts) => {
                    let (days_left, (by, ())) = parts;
                    return Ok(Way::OverLand { days_left, by });
                }
                Err(e) => return Err(e),
            },
            Ok((_, variant)) => match variant.newtype_variant() {
                Ok(first) => return Ok(Way::AcrossTheSea(first)),
                Err(e) => return Err(e),
            },
            Err(e) => return Err(e),
        }
    }

    fn missing() -> Option<Way> {
        None
    }
}

impl<'de, R: ReadSlice<'de>> RoundTrip<'de, R> for Way {
    ghost has_data = { λ human. elim [
      | the_way.ByAir ↦ refl
      | the_way.OverLand a1 a2 ↦ struct_variant_all (codes "over-land")
          ((codes "daysLeft", ⟦<u8 as Serialize>⟧.data_of a1 human) ∷ ((codes "by", ⟦<String as Serialize>⟧.data_of a2 human) ∷ [])) (refl, (refl, tt))
      | the_way.AcrossTheSea a1 ↦ newtype_variant_some (codes "sea") (⟦<u16 as Serialize>⟧.data_of a1 human) refl
    ] };

    ghost round = { λ lent s. let names = codes "by-air" ∷ (codes "over-land" ∷ (codes "sea" ∷ []))
        in elim [
          | the_way.ByAir ↦ λ fits. bare_row s names (codes "by-air") 0 refl _ (refl, tt)
          | the_way.OverLand a1 a2 ↦ λ fits. struct_variant_row s
              names (codes "over-land") 1 refl _ (codes "daysLeft" ∷ (codes "by" ∷ [])) _ _ refl (λ m h. (a1, a2, refl, h))
              (fields_cons s (codes "daysLeft") _ _ _ (λ j. ⟦<u8 as Deserialize<'de, R>>⟧.reads s.human R.lends j a1)
              (Absent ⟦<u8 as Deserialize<'de, R>>⟧.absent a1) _ (byte_row s a1 fits.0)
              (fields_cons s (codes "by") _ _ _ (λ j. ⟦<String as Deserialize<'de, R>>⟧.reads s.human R.lends j a2)
              (Absent ⟦<String as Deserialize<'de, R>>⟧.absent a2) _ (string_row s (string_bytes a2)) (fields_none s)))
          | the_way.AcrossTheSea a1 ↦ λ fits.
              newtype_variant_row s names (codes "sea") 2 refl _ _ (λ j. ⟦<u16 as Deserialize<'de, R>>⟧.reads s.human R.lends j a1) (λ m h. (a1, refl, h))
              (unsigned_row_16 s a1 fits)
        ] };

    ghost same = { λ v w. elim v [
      | the_way.ByAir ↦ (w ≡ the_way.ByAir)
      | the_way.OverLand a1 a2 ↦ (b1 : _) × (b2 : _) × (w ≡ the_way.OverLand b1 b2)
          × ⟦<u8 as RoundTrip<'de, R>>⟧.same a1 b1 × ⟦<String as RoundTrip<'de, R>>⟧.same a2 b2
      | the_way.AcrossTheSea a1 ↦ (b1 : _)
          × (w ≡ the_way.AcrossTheSea b1) × ⟦<u16 as RoundTrip<'de, R>>⟧.same a1 b1
    ] };

    ghost alike = { λ human. elim [
      | the_way.ByAir ↦ λ w h. variant_alike (λ x. ⟦<Way as Serialize>⟧.data_of x human) w the_way.ByAir h
          (λ i. Some (unit_variant (codes "by-air")))
      | the_way.OverLand a1 a2 ↦ λ w h. variant_alike (λ x. ⟦<Way as Serialize>⟧.data_of x human) w
          (the_way.OverLand h.0 h.1) h.2 (λ i. struct_variant_of (codes "over-land")
          ((codes "daysLeft", (⟦<u8 as Serialize>⟧.data_of (h.3 i) human)) ∷ ((codes "by", (text_alike (string_bytes a2) (string_bytes h.1) h.4 i)) ∷ [])))
      | the_way.AcrossTheSea a1 ↦ λ w h. variant_alike (λ x. ⟦<Way as Serialize>⟧.data_of x human) w (the_way.AcrossTheSea h.0) h.1
          (λ i. newtype_variant_of (codes "sea") (⟦<u16 as Serialize>⟧.data_of (h.2 i) human))
    ] };

    ghost only = { λ s. let names = codes "by-air" ∷ (codes "over-land" ∷ (codes "sea" ∷ []))
        in elim [
          | the_way.ByAir ↦ λ fits. lowers_then s (Some (unit_variant (codes "by-air"))) (OfVariant names (AtPlace 0 AnyContent)) (λ m. (w : _)
              → (⟦<Way as Deserialize<'de, R>>⟧.reads s.human R.lends) m w
              → (w ≡ the_way.ByAir)) (bare_row s names (codes "by-air") 0 refl (AtPlace 0 AnyContent) (refl, tt))
              (λ m q w r. variant_both names 0 AnyContent _ _ m q r (λ c a b. b.0))
          | the_way.OverLand a1 a2 ↦ λ fits. lowers_then s _ _ (λ m. (w : _)
              → (⟦<Way as Deserialize<'de, R>>⟧.reads s.human R.lends) m w
              → (b1 : _) × (b2 : _) × (w ≡ the_way.OverLand b1 b2) × ⟦<u8 as RoundTrip<'de, R>>⟧.same a1 b1 × ⟦<String as RoundTrip<'de, R>>⟧.same a2 b2)
              (struct_variant_row s names (codes "over-land") 1 refl
              (AtPlace 1 (Content (OfFields (codes "daysLeft" ∷ (codes "by" ∷ []))
              (Field (λ j. Only (⟦<u8 as Deserialize<'de, R>>⟧.reads s.human R.lends) ⟦<u8 as RoundTrip<'de, R>>⟧.same j a1) ⊥
              (Field (λ j. Only (⟦<String as Deserialize<'de, R>>⟧.reads s.human R.lends) ⟦<String as RoundTrip<'de, R>>⟧.same j a2) ⊥ NoField)))))
              (codes "daysLeft" ∷ (codes "by" ∷ [])) _ _ refl (λ m h. (refl, h))
              (fields_cons s (codes "daysLeft") _ _ _ (λ j. Only (⟦<u8 as Deserialize<'de, R>>⟧.reads s.human R.lends) ⟦<u8 as RoundTrip<'de, R>>⟧.same j a1) ⊥ _
              (byte_only s a1) (fields_cons s (codes "by") _ _ _
              (λ j. Only (⟦<String as Deserialize<'de, R>>⟧.reads s.human R.lends) ⟦<String as RoundTrip<'de, R>>⟧.same j a2) ⊥ _
              (string_only s (λ w. string_bytes w) (string_bytes a2)) (fields_none s))))
              (λ m q w r. variant_both names 1 _ _ _ m q r (λ c a b. content_fields (codes "daysLeft" ∷ (codes "by" ∷ [])) _ _ _ c a b.3
              (λ ks i j. let x = field_only (⟦<u8 as Deserialize<'de, R>>⟧.reads s.human R.lends) ⟦<u8 as RoundTrip<'de, R>>⟧.same a1 b.0 _ _ _ _
              (last_field (⟦<String as Deserialize<'de, R>>⟧.reads s.human R.lends) ⟦<String as RoundTrip<'de, R>>⟧.same a2 b.1 _) ks i j
              in (b.0, b.1, b.2, x.0, x.1))))
          | the_way.AcrossTheSea a1 ↦ λ fits. lowers_then s _ _ (λ m. (w : _)
              → (⟦<Way as Deserialize<'de, R>>⟧.reads s.human R.lends) m w
              → (b1 : _) × (w ≡ the_way.AcrossTheSea b1) × ⟦<u16 as RoundTrip<'de, R>>⟧.same a1 b1)
              (newtype_variant_row s names (codes "sea") 2 refl (AtPlace 2
              (Content (λ j. Only (⟦<u16 as Deserialize<'de, R>>⟧.reads s.human R.lends) ⟦<u16 as RoundTrip<'de, R>>⟧.same j a1))) _
              (λ j. Only (⟦<u16 as Deserialize<'de, R>>⟧.reads s.human R.lends) ⟦<u16 as RoundTrip<'de, R>>⟧.same j a1) (λ m h. (refl, h))
              (unsigned_only s 65535 a1)) (λ m q w r. variant_both names 2 _ _ _ m q r
              (λ c a b. (b.0, b.1, content_only (⟦<u16 as Deserialize<'de, R>>⟧.reads s.human R.lends) ⟦<u16 as RoundTrip<'de, R>>⟧.same a1 b.0 c a b.2)))
        ] };
}

impl NeverNil for Way {
    ghost never_nil = { λ s. elim [
      | the_way.ByAir ↦ bare_other s (codes "by-air")
      | the_way.OverLand a1 a2 ↦ struct_variant_other s (codes "over-land") _
      | the_way.AcrossTheSea a1 ↦ newtype_variant_other s (codes "sea") _
    ] };
}

impl<'de, R: ReadSlice<'de>> EndsInside<'de, R> for Way {
    ghost ends_inside = { enum_inside _ _ (
      no_content_inside,
      (with_content_inside _ (fields_inside _ _ _ (number_inside, (string_inside, tt))), (with_content_inside _ (number_inside), tt)),
    ) };
}
