//! How the types of mixed.rt are written and read. Written by tools/derive.py.
//!
//! Sum of Course: 9c441c49.
//! Sum of Spot: f330d092.
ghost use Rattle.rmp_decode.specs.Arrays.{Exactly};
ghost use Rattle.rmp_decode.specs.EnumRefusing.{RefusesEnum, no_content, with_content};
ghost use Rattle.rmp_decode.specs.FieldRefusing.{RefusesFields};
ghost use Rattle.rmp_decode.specs.Fields.{OfFields, Field, Absent, NoField};
ghost use Rattle.rmp_decode.specs.Refusing.{RefusesTuple, part_of};
ghost use Rattle.rmp_decode.specs.Rows.{AndThen, NoMore, ReadsEach};
ghost use Rattle.rmp_decode.specs.Seq.{OfRow};
ghost use Rattle.rmp_decode.specs.Variants.{OfVariant, Case, NoCase, Bare, Content};
ghost use Rattle.rmp_encode.specs.Data.{unit_variant};
ghost use Rattle.rmp_encode.specs.Refusals.{OfParts, OfSink};
ghost use Rattle.rmp_encode.specs.Sizes.{one_of};
ghost use Rattle.rmp_encode.specs.Trees.{structure_of, newtype_variant_of, tuple_variant_of, struct_variant_of};
ghost use Rattle.rmp_ends.specs.EnumEnds.{enum_inside, no_content_inside, with_content_inside};
ghost use Rattle.rmp_ends.specs.FieldEnds.{fields_inside};
ghost use Rattle.rmp_ends.specs.LeafEnds.{kind_inside, number_inside, char_inside, string_inside};
ghost use Rattle.rmp_ends.specs.RowEnds.{array_inside, option_inside, tuple_inside};
ghost use Rattle.rmp_round_trip.specs.AlikeData.{array_alike, float64_alike, option_alike, text_alike, variant_alike};
ghost use Rattle.rmp_round_trip.specs.LeafRounds.{byte_row, unsigned_row_16, signed_row_32, float64_row, char_row, string_row, char_other};
ghost use Rattle.rmp_round_trip.specs.OnlyFields.{AtPlace, AnyContent, content_fields, content_only, content_row};
ghost use Rattle.rmp_round_trip.specs.OnlyFields.{field_only, fields_both, last_field, variant_both};
ghost use Rattle.rmp_round_trip.specs.OnlyLeaves.{byte_only, unsigned_only, signed_only, float64_only, char_only, string_only};
ghost use Rattle.rmp_round_trip.specs.OnlyRows.{array_only, item_only, last_only, lowers_then, option_only};
ghost use Rattle.rmp_round_trip.specs.RoundTrip.{Only};
ghost use Rattle.rmp_round_trip.specs.Rounds.{each_some, each_row, rows_map, option_some, option_row, tuple_some, tuple_row, rows_none, rows_cons};
ghost use Rattle.rmp_round_trip.specs.StructRounds.{structure_other, fields_none, fields_cons};
ghost use Rattle.rmp_round_trip.specs.StructRounds.{tuple_variant_all, structure_all, struct_variant_all, structure_row};
ghost use Rattle.rmp_round_trip.specs.VariantRounds.{bare_other, newtype_variant_other, tuple_variant_other, struct_variant_other};
ghost use Rattle.rmp_round_trip.specs.VariantRounds.{newtype_variant_some, bare_row, newtype_variant_row, tuple_variant_row, struct_variant_row};
ghost use Rattle.std.proofs.Common.{refl};
ghost use Rattle.std.specs.Option.{is_none};
ghost use Rattle.std.specs.Prelude.{◌≡◌, ◌∷◌, [], None, Some, codes, false, ⊤, string_bytes, pos, negsuc};
ghost use Rattle.test_mixed.specs.declared.mixed.Course.TheVariants as the_course;

use super::{Course, F64Bits, Spot};
use rmp_decode::{Deserialize, Deserializer, ReadFields};
use rmp_encode::{Serialize, Serializer};
use rmp_ends::EndsInside;
use rmp_round_trip::{NeverNil, RoundTrip};
use rmp_wire::config::SerializerConfig;
use rmp_wire::{ReadSlice, Sink};

impl Serialize for Course {
    ghost data_of = { λ v human. elim v [
      | the_course.Moored ↦ Some (unit_variant (codes "Moored"))
      | the_course.Toward a1 ↦ newtype_variant_of
          (codes "Toward") (⟦<String as Serialize>⟧.data_of a1 human)
      | the_course.Between a1 a2 ↦ tuple_variant_of (codes "Between")
          (⟦<u16 as Serialize>⟧.data_of a1 human ∷ (⟦<i32 as Serialize>⟧.data_of a2 human ∷ []))
      | the_course.By a1 a2 ↦ struct_variant_of (codes "By")
          ((codes "wind", ⟦<F64Bits as Serialize>⟧.data_of a1 human) ∷ ((codes "sails", ⟦<[u8; 2] as Serialize>⟧.data_of a2 human) ∷ []))
    ] };

    ghost is_value = { λ v. elim v [
      | the_course.Moored ↦ ⊤
      | the_course.Toward a1 ↦ ⟦<String as Serialize>⟧.is_value a1
      | the_course.Between a1 a2 ↦
          ⟦<u16 as Serialize>⟧.is_value a1 × ⟦<i32 as Serialize>⟧.is_value a2
      | the_course.By a1 a2 ↦ ⟦<F64Bits as Serialize>⟧.is_value a1
          × ⟦<[u8; 2] as Serialize>⟧.is_value a2
    ] };

    ghost takes_memory = { λ s. one_of (false ∷ (⟦<String as Serialize>⟧.takes_memory s
        ∷ (one_of (⟦<u16 as Serialize>⟧.takes_memory s ∷ (⟦<i32 as Serialize>⟧.takes_memory s ∷ []))
        ∷ (one_of (⟦<F64Bits as Serialize>⟧.takes_memory s ∷ (⟦<[u8; 2] as Serialize>⟧.takes_memory s ∷ [])) ∷ [])))) };

    ghost refuses = { λ v. elim v [
      | the_course.Moored ↦ OfSink
      | the_course.Toward a1 ↦ OfParts ⊥ (⟦<String as Serialize>⟧.refuses a1 ∷ [])
      | the_course.Between a1 a2 ↦ OfParts ⊥ (⟦<u16 as Serialize>⟧.refuses a1 ∷ (⟦<i32 as Serialize>⟧.refuses a2 ∷ []))
      | the_course.By a1 a2 ↦ OfParts ⊥
          (⟦<F64Bits as Serialize>⟧.refuses a1 ∷ (⟦<[u8; 2] as Serialize>⟧.refuses a2 ∷ []))
    ] };

    #[tactic(auto, unfolding(rmp_encode::specs::Data::lower))]
    fn serialize<W: Sink, C: SerializerConfig>(
        &self,
        se: &mut Serializer<W, C>,
    ) -> Result<(), rmp_encode::Error> {
        match self {
            Course::Moored => se.serialize_unit_variant("Course", 0, "Moored"),
            Course::Toward(first) => se.serialize_newtype_variant("Course", 1, "Toward", first),
            Course::Between(first, second) => {
                let parts = rmp_encode::Both { first, second };
                se.serialize_tuple_variant_of("Course", 2, "Between", &parts)
            }
            Course::By { wind, sails } => {
                let parts = rmp_encode::Both {
                    first: wind,
                    second: sails,
                };
                se.serialize_struct_variant_of("Course", 3, "By", &["wind", "sails"], &parts)
            }
        }
    }

    fn as_u8(&self, _human: bool) -> Option<u8> {
        match self {
            Course::Moored => None,
            Course::Toward(_) => None,
            Course::Between(_, _) => None,
            Course::By { .. } => None,
        }
    }
}

impl<'de, R: ReadSlice<'de>> Deserialize<'de, R> for Course {
    ghost reads = { λ human lends m v. OfVariant (codes "Moored" ∷ (codes "Toward" ∷ (codes "Between" ∷ (codes "By" ∷ []))))
        (Case (λ c. (v ≡ the_course.Moored) × Bare c) (Case
        (λ c. (a1 : _) × (v ≡ the_course.Toward a1) × Content (λ k. ⟦<String as Deserialize<'de, R>>⟧.reads human lends k a1) c)
        (Case (λ c. (a1 : _) × (a2 : _) × (v ≡ the_course.Between a1 a2)
        × Content (λ k. OfRow (AndThen (λ j. ⟦<u16 as Deserialize<'de, R>>⟧.reads human lends j a1)
        (AndThen (λ j. ⟦<i32 as Deserialize<'de, R>>⟧.reads human lends j a2) NoMore)) k) c)
        (Case (λ c. (a1 : _) × (a2 : _) × (v ≡ the_course.By a1 a2)
        × Content (λ k. OfFields (codes "wind" ∷ (codes "sails" ∷ []))
        (Field (λ j. ⟦<F64Bits as Deserialize<'de, R>>⟧.reads human lends j a1) (Absent ⟦<F64Bits as Deserialize<'de, R>>⟧.absent a1)
        (Field (λ j. ⟦<[u8; 2] as Deserialize<'de, R>>⟧.reads human lends j a2) (Absent ⟦<[u8; 2] as Deserialize<'de, R>>⟧.absent a2) NoField)) k) c)
        NoCase)))) m };

    ghost absent = { None };

    ghost refuses = { RefusesEnum (codes "Moored" ∷ (codes "Toward" ∷ (codes "Between" ∷ (codes "By" ∷ []))))
        (no_content ∷ (with_content (⟦<String as Deserialize<'de, R>>⟧.refuses)
        ∷ (with_content (RefusesTuple (part_of ⟦<u16 as Deserialize<'de, R>>⟧.reads ⟦<u16 as Deserialize<'de, R>>⟧.refuses
        ∷ (part_of ⟦<i32 as Deserialize<'de, R>>⟧.reads ⟦<i32 as Deserialize<'de, R>>⟧.refuses ∷ [])))
        ∷ (with_content (RefusesFields (codes "wind" ∷ (codes "sails" ∷ [])) ⟦<(F64Bits, ([u8; 2], ())) as ReadFields<'de, R>>⟧.needed
        ⟦<(F64Bits, ([u8; 2], ())) as ReadFields<'de, R>>⟧.parts) ∷ [])))) };

    fn deserialize<C: SerializerConfig>(
        de: &mut Deserializer<R, C>,
    ) -> Result<Course, rmp_decode::Error> {
        match de.deserialize_enum(&["Moored", "Toward", "Between", "By"]) {
            Ok((0, variant)) => match variant.unit_variant() {
                Ok(()) => return Ok(Course::Moored),
                Err(e) => return Err(e),
            },
            Ok((1, variant)) => match variant.newtype_variant() {
                Ok(first) => return Ok(Course::Toward(first)),
                Err(e) => return Err(e),
            },
            Ok((2, variant)) => match variant.newtype_variant() {
                Ok(parts) => {
                    let (first, second) = parts;
                    return Ok(Course::Between(first, second));
                }
                Err(e) => return Err(e),
            },
            Ok((_, variant)) => match variant.fields_variant(&["wind", "sails"]) {
                Ok(parts) => {
                    let (wind, (sails, ())) = parts;
                    return Ok(Course::By { wind, sails });
                }
                Err(e) => return Err(e),
            },
            Err(e) => return Err(e),
        }
    }

    fn missing() -> Option<Course> {
        None
    }
}

impl<'de, R: ReadSlice<'de>> RoundTrip<'de, R> for Course {
    ghost has_data = { λ human. elim [
      | the_course.Moored ↦ refl
      | the_course.Toward a1 ↦ newtype_variant_some (codes "Toward")
          (⟦<String as Serialize>⟧.data_of a1 human) refl
      | the_course.Between a1 a2 ↦ tuple_variant_all (codes "Between")
          (⟦<u16 as Serialize>⟧.data_of a1 human ∷ (⟦<i32 as Serialize>⟧.data_of a2 human ∷ [])) (refl, (refl, tt))
      | the_course.By a1 a2 ↦ struct_variant_all
          (codes "By") ((codes "wind", ⟦<F64Bits as Serialize>⟧.data_of a1 human) ∷ ((codes "sails", ⟦<[u8; 2] as Serialize>⟧.data_of a2 human) ∷ []))
          (refl, ((tuple_some _ (each_some (λ x. ⟦<u8 as Serialize>⟧.data_of x human) (λ x1. refl) a2)), tt))
    ] };

    ghost round = { λ lent s. let names = codes "Moored" ∷ (codes "Toward" ∷ (codes "Between" ∷ (codes "By" ∷ [])))
        in elim [
          | the_course.Moored ↦ λ fits. bare_row s names (codes "Moored") 0 refl _ (refl, tt)
          | the_course.Toward a1 ↦ λ fits. newtype_variant_row s
              names (codes "Toward") 1 refl _ _ (λ j. ⟦<String as Deserialize<'de, R>>⟧.reads s.human R.lends j a1) (λ m h. (a1, refl, h))
              (string_row s (string_bytes a1))
          | the_course.Between a1 a2 ↦ λ fits. tuple_variant_row s names (codes "Between") 2 refl _ _ _
              (λ m h. (a1, a2, refl, h)) (rows_cons s _ _ (λ j. ⟦<u16 as Deserialize<'de, R>>⟧.reads s.human R.lends j a1) _ (unsigned_row_16 s a1 fits.0)
              (rows_cons s _ _ (λ j. ⟦<i32 as Deserialize<'de, R>>⟧.reads s.human R.lends j a2) _ (signed_row_32 s a2 fits.1) (rows_none s)))
          | the_course.By a1
              a2 ↦ λ fits. struct_variant_row s names (codes "By") 3 refl _ (codes "wind" ∷ (codes "sails" ∷ [])) _ _ refl (λ m h. (a1, a2, refl, h))
              (fields_cons s (codes "wind") _ _ _ (λ j. ⟦<F64Bits as Deserialize<'de, R>>⟧.reads s.human R.lends j a1)
              (Absent ⟦<F64Bits as Deserialize<'de, R>>⟧.absent a1) _ (float64_row s a1.0)
              (fields_cons s (codes "sails") _ _ _ (λ j. ⟦<[u8; 2] as Deserialize<'de, R>>⟧.reads s.human R.lends j a2)
              (Absent ⟦<[u8; 2] as Deserialize<'de, R>>⟧.absent a2) _
              (tuple_row s _ (Exactly 2 (⟦<u8 as Deserialize<'de, R>>⟧.reads s.human R.lends) a2)
              (rows_map s _ _ _ (λ ms each. (fits.1.0, each)) (each_row s (λ x. ⟦<u8 as Serialize>⟧.data_of x s.human) ⟦<u8 as Serialize>⟧.is_value
              (⟦<u8 as Deserialize<'de, R>>⟧.reads s.human R.lends) (λ x2 h2. (byte_row s x2 h2)) a2 fits.1.1))) (fields_none s)))
        ] };

    ghost same = { λ v w. elim v [
      | the_course.Moored ↦ (w ≡ the_course.Moored)
      | the_course.Toward a1 ↦ (b1 : _) × (w ≡ the_course.Toward b1)
          × ⟦<String as RoundTrip<'de, R>>⟧.same a1 b1
      | the_course.Between a1 a2 ↦ (b1 : _) × (b2 : _) × (w ≡ the_course.Between b1 b2)
          × ⟦<u16 as RoundTrip<'de, R>>⟧.same a1 b1 × ⟦<i32 as RoundTrip<'de, R>>⟧.same a2 b2
      | the_course.By a1 a2 ↦ (b1 : _) × (b2 : _)
          × (w ≡ the_course.By b1 b2) × ⟦<F64Bits as RoundTrip<'de, R>>⟧.same a1 b1 × ⟦<[u8; 2] as RoundTrip<'de, R>>⟧.same a2 b2
    ] };

    ghost alike = { λ human. elim [
      | the_course.Moored ↦ λ w h. variant_alike (λ x. ⟦<Course as Serialize>⟧.data_of x human) w the_course.Moored h
          (λ i. Some (unit_variant (codes "Moored")))
      | the_course.Toward a1 ↦ λ w h. variant_alike (λ x. ⟦<Course as Serialize>⟧.data_of x human) w
          (the_course.Toward h.0) h.1 (λ i. newtype_variant_of (codes "Toward") (text_alike (string_bytes a1) (string_bytes h.0) h.2 i))
      | the_course.Between
          a1 a2 ↦ λ w h. variant_alike (λ x. ⟦<Course as Serialize>⟧.data_of x human) w (the_course.Between h.0 h.1) h.2
          (λ i. tuple_variant_of (codes "Between") ((⟦<u16 as Serialize>⟧.data_of (h.3 i) human) ∷ ((⟦<i32 as Serialize>⟧.data_of (h.4 i) human) ∷ [])))
      | the_course.By a1 a2 ↦ λ w h. variant_alike (λ x. ⟦<Course as Serialize>⟧.data_of x human) w (the_course.By h.0 h.1) h.2
          (λ i. struct_variant_of (codes "By") ((codes "wind", (float64_alike a1.0 h.0.0 h.3 i))
          ∷ ((
            codes "sails",
            (array_alike ⟦<u8 as RoundTrip<'de, R>>⟧.same (λ x. ⟦<u8 as Serialize>⟧.data_of x human)
                (λ x2 yx2 h2 i. (⟦<u8 as Serialize>⟧.data_of (h2 i) human)) a2 h.1 h.4 i),
          ) ∷ [])))
    ] };

    ghost only = { λ s. let names = codes "Moored" ∷ (codes "Toward" ∷ (codes "Between" ∷ (codes "By" ∷ [])))
        in elim [
          | the_course.Moored ↦ λ fits. lowers_then s (Some (unit_variant (codes "Moored"))) (OfVariant names (AtPlace 0 AnyContent)) (λ m. (w : _)
              → (⟦<Course as Deserialize<'de, R>>⟧.reads s.human R.lends) m w
              → (w ≡ the_course.Moored)) (bare_row s names (codes "Moored") 0 refl (AtPlace 0 AnyContent) (refl, tt))
              (λ m q w r. variant_both names 0 AnyContent _ _ m q r (λ c a b. b.0))
          | the_course.Toward a1 ↦ λ fits. lowers_then s _ _ (λ m. (w : _)
              → (⟦<Course as Deserialize<'de, R>>⟧.reads s.human R.lends) m w
              → (b1 : _) × (w ≡ the_course.Toward b1) × ⟦<String as RoundTrip<'de, R>>⟧.same a1 b1)
              (newtype_variant_row s names (codes "Toward") 1 refl
              (AtPlace 1 (Content (λ j. Only (⟦<String as Deserialize<'de, R>>⟧.reads s.human R.lends) ⟦<String as RoundTrip<'de, R>>⟧.same j a1))) _
              (λ j. Only (⟦<String as Deserialize<'de, R>>⟧.reads s.human R.lends) ⟦<String as RoundTrip<'de, R>>⟧.same j a1) (λ m h. (refl, h))
              (string_only s (λ w. string_bytes w) (string_bytes a1)))
              (λ m q w r. variant_both names 1 _ _ _ m q r (λ c a b.
              (b.0, b.1, content_only (⟦<String as Deserialize<'de, R>>⟧.reads s.human R.lends) ⟦<String as RoundTrip<'de, R>>⟧.same a1 b.0 c a b.2)))
          | the_course.Between a1 a2 ↦ λ fits. lowers_then s _ _ (λ m. (w : _) → (⟦<Course as Deserialize<'de, R>>⟧.reads s.human R.lends) m w
              → (b1 : _) × (b2 : _) × (w ≡ the_course.Between b1 b2) × ⟦<u16 as RoundTrip<'de, R>>⟧.same a1 b1 × ⟦<i32 as RoundTrip<'de, R>>⟧.same a2 b2)
              (tuple_variant_row s names (codes "Between") 2 refl
              (AtPlace 2 (Content (OfRow (AndThen (λ j. Only (⟦<u16 as Deserialize<'de, R>>⟧.reads s.human R.lends) ⟦<u16 as RoundTrip<'de, R>>⟧.same j a1)
              (AndThen (λ j. Only (⟦<i32 as Deserialize<'de, R>>⟧.reads s.human R.lends) ⟦<i32 as RoundTrip<'de, R>>⟧.same j a2) NoMore))))) _ _
              (λ m h. (refl, h)) (rows_cons s _ _ (λ j. Only (⟦<u16 as Deserialize<'de, R>>⟧.reads s.human R.lends) ⟦<u16 as RoundTrip<'de, R>>⟧.same j a1) _
              (unsigned_only s 65535 a1) (rows_cons s _ _ (λ j. Only (⟦<i32 as Deserialize<'de, R>>⟧.reads s.human R.lends) ⟦<i32 as RoundTrip<'de, R>>⟧.same j
              a2) _ (signed_only s (negsuc 2147483647) (pos 2147483647) a2) (rows_none s))))
              (λ m q w r. variant_both names 2 _ _ _ m q r (λ c a b. content_row _ _ _ c a b.3
              (λ ks i j. let x = item_only (⟦<u16 as Deserialize<'de, R>>⟧.reads s.human R.lends) ⟦<u16 as RoundTrip<'de, R>>⟧.same a1 b.0 _ _ _
              (last_only (⟦<i32 as Deserialize<'de, R>>⟧.reads s.human R.lends) ⟦<i32 as RoundTrip<'de, R>>⟧.same a2 b.1) ks i j in (b.0, b.1, b.2, x.0, x.1))))
          | the_course.By a1 a2 ↦ λ fits. lowers_then s _ _ (λ m. (w : _) → (⟦<Course as Deserialize<'de, R>>⟧.reads s.human R.lends) m w
              → (b1 : _) × (b2 : _) × (w ≡ the_course.By b1 b2) × ⟦<F64Bits as RoundTrip<'de, R>>⟧.same a1 b1 × ⟦<[u8; 2] as RoundTrip<'de, R>>⟧.same a2 b2)
              (struct_variant_row s names (codes "By") 3 refl (AtPlace 3
              (Content (OfFields (codes "wind" ∷ (codes "sails" ∷ []))
              (Field (λ j. Only (⟦<F64Bits as Deserialize<'de, R>>⟧.reads s.human R.lends) ⟦<F64Bits as RoundTrip<'de, R>>⟧.same j a1) ⊥
              (Field (λ j. Only (⟦<[u8; 2] as Deserialize<'de, R>>⟧.reads s.human R.lends) ⟦<[u8; 2] as RoundTrip<'de, R>>⟧.same j a2) ⊥ NoField)))))
              (codes "wind" ∷ (codes "sails" ∷ [])) _ _ refl (λ m h. (refl, h))
              (fields_cons s (codes "wind") _ _ _ (λ j. Only (⟦<F64Bits as Deserialize<'de, R>>⟧.reads s.human R.lends) ⟦<F64Bits as RoundTrip<'de, R>>⟧.same j
              a1) ⊥ _ (float64_only s (λ w. w.0) a1.0) (fields_cons s (codes "sails") _ _ _
              (λ j. Only (⟦<[u8; 2] as Deserialize<'de, R>>⟧.reads s.human R.lends) ⟦<[u8; 2] as RoundTrip<'de, R>>⟧.same j a2) ⊥ _
              (array_only s _ 2 (⟦<u8 as Deserialize<'de, R>>⟧.reads s.human R.lends) ⟦<u8 as RoundTrip<'de, R>>⟧.same a2
              (tuple_row s _ (λ ms. ReadsEach (Only (⟦<u8 as Deserialize<'de, R>>⟧.reads s.human R.lends) ⟦<u8 as RoundTrip<'de, R>>⟧.same) ms a2)
              (each_row s (λ x. ⟦<u8 as Serialize>⟧.data_of x s.human) ⟦<u8 as Serialize>⟧.is_value
              (Only (⟦<u8 as Deserialize<'de, R>>⟧.reads s.human R.lends) ⟦<u8 as RoundTrip<'de, R>>⟧.same) (λ x1 h1. (byte_only s x1)) a2 fits.1.1)))
              (fields_none s)))) (λ m q w r. variant_both names 3 _ _ _ m q r
              (λ c a b. content_fields (codes "wind" ∷ (codes "sails" ∷ [])) _ _ _ c a b.3
              (λ ks i j. let x = field_only (⟦<F64Bits as Deserialize<'de, R>>⟧.reads s.human R.lends) ⟦<F64Bits as RoundTrip<'de, R>>⟧.same a1 b.0 _ _ _ _
              (last_field (⟦<[u8; 2] as Deserialize<'de, R>>⟧.reads s.human R.lends) ⟦<[u8; 2] as RoundTrip<'de, R>>⟧.same a2 b.1 _) ks i j
              in (b.0, b.1, b.2, x.0, x.1))))
        ] };
}

impl NeverNil for Course {
    ghost never_nil = { λ s. elim [
      | the_course.Moored ↦ bare_other s (codes "Moored")
      | the_course.Toward a1 ↦ newtype_variant_other s (codes "Toward") _
      | the_course.Between a1 a2 ↦ tuple_variant_other s (codes "Between") _
      | the_course.By a1 a2 ↦ struct_variant_other s (codes "By") _
    ] };
}

impl<'de, R: ReadSlice<'de>> EndsInside<'de, R> for Course {
    ghost ends_inside = { enum_inside _ _ (
      no_content_inside,
      (
        with_content_inside _ (string_inside),
        (
          with_content_inside _
              (tuple_inside (part_of ⟦<u16 as Deserialize<'de, R>>⟧.reads ⟦<u16 as Deserialize<'de, R>>⟧.refuses
              ∷ (part_of ⟦<i32 as Deserialize<'de, R>>⟧.reads ⟦<i32 as Deserialize<'de, R>>⟧.refuses ∷ [])) (number_inside, (number_inside, tt))),
          (
            with_content_inside _ (fields_inside _ _ _ (
              kind_inside,
              ((array_inside _ 2 ⟦<u8 as Deserialize<'de, R>>⟧.reads ⟦<u8 as Deserialize<'de, R>>⟧.refuses number_inside), tt),
            )),
            tt,
          ),
        ),
      ),
    ) };
}

impl Serialize for Spot {
    ghost data_of = { λ v human. structure_of ((codes "north", ⟦<i32 as Serialize>⟧.data_of v.north human)
        ∷ ((codes "name", ⟦<Option<char> as Serialize>⟧.data_of v.name human) ∷ [])) };

    ghost is_value = { λ v. ⟦<i32 as Serialize>⟧.is_value v.north × ⟦<Option<char> as Serialize>⟧.is_value v.name };

    ghost takes_memory = { λ s. one_of (⟦<i32 as Serialize>⟧.takes_memory s ∷ (⟦<Option<char> as Serialize>⟧.takes_memory s ∷ [])) };

    ghost refuses = { λ v. OfParts ⊥ (⟦<i32 as Serialize>⟧.refuses v.north ∷ (⟦<Option<char> as Serialize>⟧.refuses v.name ∷ [])) };

    fn serialize<W: Sink, C: SerializerConfig>(
        &self,
        se: &mut Serializer<W, C>,
    ) -> Result<(), rmp_encode::Error> {
        let parts = rmp_encode::Both {
            first: &self.north,
            second: &self.name,
        };
        se.serialize_fields("Spot", &["north", "name"], &parts)
    }

    #[tactic(auto, using(rmp_encode::proofs::Fields::structure_no_byte))]
    fn as_u8(&self, _human: bool) -> Option<u8> {
        None
    }
}

impl<'de, R: ReadSlice<'de>> Deserialize<'de, R> for Spot {
    ghost reads = { λ human lends m v. OfFields (codes "north" ∷ (codes "name" ∷ []))
        (Field (λ j. ⟦<i32 as Deserialize<'de, R>>⟧.reads human lends j v.north) (Absent ⟦<i32 as Deserialize<'de, R>>⟧.absent v.north)
        (Field (λ j. ⟦<Option<char> as Deserialize<'de, R>>⟧.reads human lends j v.name) (Absent ⟦<Option<char> as Deserialize<'de, R>>⟧.absent v.name)
        NoField)) m };

    ghost absent = { None };

    ghost refuses = { RefusesFields (codes "north" ∷ (codes "name" ∷ []))
        (is_none ⟦<i32 as Deserialize<'de, R>>⟧.absent ∷ (is_none ⟦<Option<char> as Deserialize<'de, R>>⟧.absent ∷ []))
        (part_of ⟦<i32 as Deserialize<'de, R>>⟧.reads ⟦<i32 as Deserialize<'de, R>>⟧.refuses
        ∷ (part_of ⟦<Option<char> as Deserialize<'de, R>>⟧.reads ⟦<Option<char> as Deserialize<'de, R>>⟧.refuses ∷ [])) };

    #[inline(always)]
    fn deserialize<C: SerializerConfig>(
        de: &mut Deserializer<R, C>,
    ) -> Result<Spot, rmp_decode::Error> {
        let read: Result<(i32, (Option<char>, ())), rmp_decode::Error> = rmp_decode::read_fields_2(
            de,
            &["north", "name"],
        );
        match read {
            Ok(parts) => {
                let (north, (name, ())) = parts;
                return Ok(Spot { north, name });
            }
            Err(e) => return Err(e),
        }
    }

    fn missing() -> Option<Spot> {
        None
    }
}

impl<'de, R: ReadSlice<'de>> RoundTrip<'de, R> for Spot {
    ghost has_data = { λ human v. structure_all ((codes "north", ⟦<i32 as Serialize>⟧.data_of v.north human)
        ∷ ((codes "name", ⟦<Option<char> as Serialize>⟧.data_of v.name human) ∷ []))
        (refl, ((option_some (λ x. ⟦<char as Serialize>⟧.data_of x human) (λ x1. refl) v.name), tt)) };

    ghost round = { λ lent s v fits. structure_row s (codes "north" ∷ (codes "name" ∷ [])) _ _ refl
        (fields_cons s (codes "north") _ _ _ (λ j. ⟦<i32 as Deserialize<'de, R>>⟧.reads s.human R.lends j v.north)
        (Absent ⟦<i32 as Deserialize<'de, R>>⟧.absent v.north) _ (signed_row_32 s v.north fits.0)
        (fields_cons s (codes "name") _ _ _ (λ j. ⟦<Option<char> as Deserialize<'de, R>>⟧.reads s.human R.lends j v.name)
        (Absent ⟦<Option<char> as Deserialize<'de, R>>⟧.absent v.name) _
        (option_row s (λ x. ⟦<char as Serialize>⟧.data_of x s.human) ⟦<char as Serialize>⟧.is_value (⟦<char as Deserialize<'de, R>>⟧.reads s.human R.lends)
        (λ x3. char_other s x3) (λ x2 h2. (char_row s x2 h2)) v.name fits.1) (fields_none s))) };

    ghost same = { λ v w. ⟦<i32 as RoundTrip<'de, R>>⟧.same v.north w.north × ⟦<Option<char> as RoundTrip<'de, R>>⟧.same v.name w.name };

    ghost alike = { λ human v w h i. structure_of ((codes "north", (⟦<i32 as Serialize>⟧.data_of (h.0 i) human))
        ∷ ((
          codes "name",
          (option_alike ⟦<char as RoundTrip<'de, R>>⟧.same (λ x. ⟦<char as Serialize>⟧.data_of x human)
              (λ x3 yx3 h3 i. (⟦<char as Serialize>⟧.data_of (h3 i) human)) v.name w.name h.1 i),
        ) ∷ [])) };

    ghost only = { λ s v fits. lowers_then s _ _ (λ m. (w : _) → (⟦<Spot as Deserialize<'de, R>>⟧.reads s.human R.lends) m w
        → ⟦<i32 as RoundTrip<'de, R>>⟧.same v.north w.north × ⟦<Option<char> as RoundTrip<'de, R>>⟧.same v.name w.name)
        (structure_row s (codes "north" ∷ (codes "name" ∷ [])) _ _ refl
        (fields_cons s (codes "north") _ _ _ (λ j. Only (⟦<i32 as Deserialize<'de, R>>⟧.reads s.human R.lends) ⟦<i32 as RoundTrip<'de, R>>⟧.same j v.north)
        ⊥ _ (signed_only s (negsuc 2147483647) (pos 2147483647) v.north)
        (fields_cons s (codes "name") _ _ _ (λ j. Only (⟦<Option<char> as Deserialize<'de, R>>⟧.reads s.human R.lends)
        ⟦<Option<char> as RoundTrip<'de, R>>⟧.same j v.name) ⊥ _
        (option_only s _ (⟦<char as Deserialize<'de, R>>⟧.reads s.human R.lends) ⟦<char as RoundTrip<'de, R>>⟧.same v.name
        (option_row s (λ x. ⟦<char as Serialize>⟧.data_of x s.human) ⟦<char as Serialize>⟧.is_value
        (Only (⟦<char as Deserialize<'de, R>>⟧.reads s.human R.lends) ⟦<char as RoundTrip<'de, R>>⟧.same) (λ x2. char_other s x2)
        (λ x1 h1. (char_only s x1 h1)) v.name fits.1)) (fields_none s))))
        (λ m q w r. fields_both (codes "north" ∷ (codes "name" ∷ [])) _ _ _ m q r
        (field_only (⟦<i32 as Deserialize<'de, R>>⟧.reads s.human R.lends) ⟦<i32 as RoundTrip<'de, R>>⟧.same v.north w.north _ _ _ _
        (last_field (⟦<Option<char> as Deserialize<'de, R>>⟧.reads s.human R.lends) ⟦<Option<char> as RoundTrip<'de, R>>⟧.same v.name w.name _))) };
}

impl NeverNil for Spot {
    ghost never_nil = { λ s v. structure_other s _ };
}

impl<'de, R: ReadSlice<'de>> EndsInside<'de, R> for Spot {
    ghost ends_inside = { fields_inside _ _ _ (number_inside, ((option_inside ⟦<char as Deserialize<'de, R>>⟧.refuses char_inside), tt)) };
}
