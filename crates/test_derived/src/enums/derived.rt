//! How the types of enums.rt are written and read. Written by tools/derive.py.
//!
//! Sum of V12: bc5391a0.
//! Sum of Two: 3a97f9c4.
//! Sum of Four: 91ed7817.
//! Sum of Mixed: 1c25bdc1.
ghost use Rattle.rmp_decode.specs.EnumRefusing.{RefusesEnum, no_content, with_content};
ghost use Rattle.rmp_decode.specs.FieldRefusing.{RefusesFields};
ghost use Rattle.rmp_decode.specs.Fields.{OfFields, Field, Absent, NoField};
ghost use Rattle.rmp_decode.specs.Refusing.{RefusesTuple, part_of};
ghost use Rattle.rmp_decode.specs.Rows.{AndThen, NoMore};
ghost use Rattle.rmp_decode.specs.Seq.{OfRow};
ghost use Rattle.rmp_decode.specs.Variants.{OfVariant, Case, NoCase, Bare, Content};
ghost use Rattle.rmp_encode.specs.Data.{unit_variant};
ghost use Rattle.rmp_encode.specs.Refusals.{OfParts, OfSink};
ghost use Rattle.rmp_encode.specs.Sizes.{one_of};
ghost use Rattle.rmp_encode.specs.Trees.{newtype_variant_of, tuple_variant_of, struct_variant_of};
ghost use Rattle.rmp_ends.specs.EnumEnds.{enum_inside, no_content_inside, with_content_inside};
ghost use Rattle.rmp_ends.specs.FieldEnds.{fields_inside};
ghost use Rattle.rmp_ends.specs.LeafEnds.{number_inside, string_inside};
ghost use Rattle.rmp_ends.specs.RowEnds.{option_inside, tuple_inside};
ghost use Rattle.rmp_round_trip.specs.AlikeData.{option_alike, text_alike, variant_alike};
ghost use Rattle.rmp_round_trip.specs.LeafRounds.{byte_row, unsigned_row_16, unsigned_row_32, string_row};
ghost use Rattle.rmp_round_trip.specs.OnlyFields.{AtPlace, AnyContent, content_fields, content_only, content_row, field_only, last_field, variant_both};
ghost use Rattle.rmp_round_trip.specs.OnlyLeaves.{byte_only, unsigned_only, string_only};
ghost use Rattle.rmp_round_trip.specs.OnlyRows.{item_only, last_only, lowers_then, option_only};
ghost use Rattle.rmp_round_trip.specs.RoundTrip.{Only};
ghost use Rattle.rmp_round_trip.specs.Rounds.{option_some, option_row, rows_none, rows_cons};
ghost use Rattle.rmp_round_trip.specs.StructRounds.{tuple_variant_all, struct_variant_all, fields_none, fields_cons};
ghost use Rattle.rmp_round_trip.specs.VariantRounds.{bare_other, newtype_variant_other, tuple_variant_other, struct_variant_other};
ghost use Rattle.rmp_round_trip.specs.VariantRounds.{newtype_variant_some, bare_row, newtype_variant_row, tuple_variant_row, struct_variant_row};
ghost use Rattle.std.proofs.Common.{refl};
ghost use Rattle.std.specs.Prelude.{◌≡◌, ◌∷◌, [], None, Some, codes, false, ⊤, string_bytes};
ghost use Rattle.test_derived.specs.declared.enums.Four.TheVariants as the_four;
ghost use Rattle.test_derived.specs.declared.enums.Mixed.TheVariants as the_mixed;
ghost use Rattle.test_derived.specs.declared.enums.Two.TheVariants as the_two;
ghost use Rattle.test_derived.specs.declared.enums.V12.TheVariants as the_v12;

use super::{Dog, Four, Mixed, Two, V12};
use rmp_decode::{Deserialize, Deserializer, ReadFields};
use rmp_encode::{Serialize, Serializer};
use rmp_ends::EndsInside;
use rmp_round_trip::{NeverNil, RoundTrip};
use rmp_wire::config::SerializerConfig;
use rmp_wire::{ReadSlice, Sink};

impl Serialize for V12 {
    ghost data_of = { λ v human. elim v [
      | the_v12.V1 ↦ Some (unit_variant (codes "V1"))
      | the_v12.V2 a1 a2 ↦ tuple_variant_of (codes "V2")
          (⟦<u32 as Serialize>⟧.data_of a1 human ∷ (⟦<u32 as Serialize>⟧.data_of a2 human ∷ []))
    ] };

    ghost is_value = { λ v. elim v [ the_v12.V1 ↦ ⊤ | the_v12.V2 a1 a2 ↦ ⟦<u32 as Serialize>⟧.is_value a1 × ⟦<u32 as Serialize>⟧.is_value a2 ] };

    ghost takes_memory = { λ s. one_of (false ∷ (one_of (⟦<u32 as Serialize>⟧.takes_memory s ∷ (⟦<u32 as Serialize>⟧.takes_memory s ∷ [])) ∷ [])) };

    ghost refuses = { λ v. elim v [
      | the_v12.V1 ↦ OfSink
      | the_v12.V2 a1 a2 ↦ OfParts ⊥
          (⟦<u32 as Serialize>⟧.refuses a1 ∷ (⟦<u32 as Serialize>⟧.refuses a2 ∷ []))
    ] };

    #[tactic(auto, unfolding(rmp_encode::specs::Data::lower))]
    fn serialize<W: Sink, C: SerializerConfig>(
        &self,
        se: &mut Serializer<W, C>,
    ) -> Result<(), rmp_encode::Error> {
        match self {
            V12::V1 => se.serialize_unit_variant("V12", 0, "V1"),
            V12::V2(first, second) => {
                let parts = rmp_encode::Both { first, second };
                se.serialize_tuple_variant_of("V12", 1, "V2", &parts)
            }
        }
    }

    fn as_u8(&self, _human: bool) -> Option<u8> {
        match self {
            V12::V1 => None,
            V12::V2(_, _) => None,
        }
    }
}

impl<'de, R: ReadSlice<'de>> Deserialize<'de, R> for V12 {
    ghost reads = { λ human lends m v. OfVariant (codes "V1" ∷ (codes "V2" ∷ []))
        (Case (λ c. (v ≡ the_v12.V1) × Bare c) (Case (λ c. (a1 : _) × (a2 : _) × (v ≡ the_v12.V2 a1 a2)
        × Content (λ k. OfRow (AndThen (λ j. ⟦<u32 as Deserialize<'de, R>>⟧.reads human lends j a1)
        (AndThen (λ j. ⟦<u32 as Deserialize<'de, R>>⟧.reads human lends j a2) NoMore)) k) c) NoCase)) m };

    ghost absent = { None };

    ghost refuses = { RefusesEnum (codes "V1" ∷ (codes "V2" ∷ []))
        (no_content ∷ (with_content (RefusesTuple (part_of ⟦<u32 as Deserialize<'de, R>>⟧.reads ⟦<u32 as Deserialize<'de, R>>⟧.refuses
        ∷ (part_of ⟦<u32 as Deserialize<'de, R>>⟧.reads ⟦<u32 as Deserialize<'de, R>>⟧.refuses ∷ []))) ∷ [])) };

    fn deserialize<C: SerializerConfig>(
        de: &mut Deserializer<R, C>,
    ) -> Result<V12, rmp_decode::Error> {
        match de.deserialize_enum(&["V1", "V2"]) {
            Ok((0, variant)) => match variant.unit_variant() {
                Ok(()) => return Ok(V12::V1),
                Err(e) => return Err(e),
            },
            Ok((_, variant)) => match variant.newtype_variant() {
                Ok(parts) => {
                    let (first, second) = parts;
                    return Ok(V12::V2(first, second));
                }
                Err(e) => return Err(e),
            },
            Err(e) => return Err(e),
        }
    }

    fn missing() -> Option<V12> {
        None
    }
}

impl<'de, R: ReadSlice<'de>> RoundTrip<'de, R> for V12 {
    ghost has_data = { λ human. elim [
      | the_v12.V1 ↦ refl
      | the_v12.V2 a1 a2 ↦ tuple_variant_all (codes "V2")
          (⟦<u32 as Serialize>⟧.data_of a1 human ∷ (⟦<u32 as Serialize>⟧.data_of a2 human ∷ [])) (refl, (refl, tt))
    ] };

    ghost round = { λ lent s. let names = codes "V1" ∷ (codes "V2" ∷ [])
        in elim [
          | the_v12.V1 ↦ λ fits. bare_row s names (codes "V1") 0 refl _ (refl, tt)
          | the_v12.V2 a1 a2 ↦ λ fits. tuple_variant_row s names (codes "V2")
              1 refl _ _ _ (λ m h. (a1, a2, refl, h)) (rows_cons s _ _ (λ j. ⟦<u32 as Deserialize<'de, R>>⟧.reads s.human R.lends j a1) _
              (unsigned_row_32 s a1 fits.0) (rows_cons s _ _ (λ j. ⟦<u32 as Deserialize<'de, R>>⟧.reads s.human R.lends j a2) _ (unsigned_row_32 s a2 fits.1)
              (rows_none s)))
        ] };

    ghost same = { λ v w. elim v [
      | the_v12.V1 ↦ (w ≡ the_v12.V1)
      | the_v12.V2 a1 a2 ↦ (b1 : _) × (b2 : _) × (w ≡ the_v12.V2 b1 b2)
          × ⟦<u32 as RoundTrip<'de, R>>⟧.same a1 b1 × ⟦<u32 as RoundTrip<'de, R>>⟧.same a2 b2
    ] };

    ghost alike = { λ human. elim [
      | the_v12.V1 ↦ λ w h. variant_alike (λ x. ⟦<V12 as Serialize>⟧.data_of x human) w the_v12.V1 h
          (λ i. Some (unit_variant (codes "V1")))
      | the_v12.V2 a1 a2 ↦ λ w h. variant_alike (λ x. ⟦<V12 as Serialize>⟧.data_of x human) w (the_v12.V2 h.0 h.1)
          h.2 (λ i. tuple_variant_of (codes "V2") ((⟦<u32 as Serialize>⟧.data_of (h.3 i) human) ∷ ((⟦<u32 as Serialize>⟧.data_of (h.4 i) human) ∷ [])))
    ] };

    ghost only = { λ s. let names = codes "V1" ∷ (codes "V2" ∷ [])
        in elim [
          | the_v12.V1 ↦ λ fits. lowers_then s (Some (unit_variant (codes "V1"))) (OfVariant names (AtPlace 0 AnyContent)) (λ m. (w : _)
              → (⟦<V12 as Deserialize<'de, R>>⟧.reads s.human R.lends) m w
              → (w ≡ the_v12.V1)) (bare_row s names (codes "V1") 0 refl (AtPlace 0 AnyContent) (refl, tt))
              (λ m q w r. variant_both names 0 AnyContent _ _ m q r (λ c a b. b.0))
          | the_v12.V2 a1 a2 ↦ λ fits. lowers_then s _ _ (λ m. (w : _)
              → (⟦<V12 as Deserialize<'de, R>>⟧.reads s.human R.lends) m w
              → (b1 : _) × (b2 : _) × (w ≡ the_v12.V2 b1 b2) × ⟦<u32 as RoundTrip<'de, R>>⟧.same a1 b1 × ⟦<u32 as RoundTrip<'de, R>>⟧.same a2 b2)
              (tuple_variant_row s names (codes "V2") 1 refl (AtPlace 1
              (Content (OfRow (AndThen (λ j. Only (⟦<u32 as Deserialize<'de, R>>⟧.reads s.human R.lends) ⟦<u32 as RoundTrip<'de, R>>⟧.same j a1)
              (AndThen (λ j. Only (⟦<u32 as Deserialize<'de, R>>⟧.reads s.human R.lends) ⟦<u32 as RoundTrip<'de, R>>⟧.same j a2) NoMore))))) _ _
              (λ m h. (refl, h)) (rows_cons s _ _ (λ j. Only (⟦<u32 as Deserialize<'de, R>>⟧.reads s.human R.lends) ⟦<u32 as RoundTrip<'de, R>>⟧.same j a1) _
              (unsigned_only s 4294967295 a1) (rows_cons s _ _ (λ j. Only (⟦<u32 as Deserialize<'de, R>>⟧.reads s.human R.lends) ⟦<u32 as RoundTrip<'de, R>>⟧.same
              j a2) _ (unsigned_only s 4294967295 a2) (rows_none s))))
              (λ m q w r. variant_both names 1 _ _ _ m q r (λ c a b. content_row _ _ _ c a b.3
              (λ ks i j. let x = item_only (⟦<u32 as Deserialize<'de, R>>⟧.reads s.human R.lends) ⟦<u32 as RoundTrip<'de, R>>⟧.same a1 b.0 _ _ _
              (last_only (⟦<u32 as Deserialize<'de, R>>⟧.reads s.human R.lends) ⟦<u32 as RoundTrip<'de, R>>⟧.same a2 b.1) ks i j in (b.0, b.1, b.2, x.0, x.1))))
        ] };
}

impl NeverNil for V12 {
    ghost never_nil = { λ s. elim [ the_v12.V1 ↦ bare_other s (codes "V1") | the_v12.V2 a1 a2 ↦ tuple_variant_other s (codes "V2") _ ] };
}

impl<'de, R: ReadSlice<'de>> EndsInside<'de, R> for V12 {
    ghost ends_inside = { enum_inside _ _ (
      no_content_inside,
      (
        with_content_inside _ (tuple_inside (part_of ⟦<u32 as Deserialize<'de, R>>⟧.reads ⟦<u32 as Deserialize<'de, R>>⟧.refuses
            ∷ (part_of ⟦<u32 as Deserialize<'de, R>>⟧.reads ⟦<u32 as Deserialize<'de, R>>⟧.refuses ∷ [])) (number_inside, (number_inside, tt))),
        tt,
      ),
    ) };
}

impl Serialize for Two {
    ghost data_of = { λ v human. elim v [ the_two.First ↦ Some (unit_variant (codes "First")) | the_two.Second ↦ Some (unit_variant (codes "Second")) ] };

    ghost is_value = { λ v. elim v [ the_two.First ↦ ⊤ | the_two.Second ↦ ⊤ ] };

    ghost takes_memory = { λ s. false };

    ghost refuses = { λ v. OfSink };

    #[tactic(auto, unfolding(rmp_encode::specs::Data::lower))]
    fn serialize<W: Sink, C: SerializerConfig>(
        &self,
        se: &mut Serializer<W, C>,
    ) -> Result<(), rmp_encode::Error> {
        match self {
            Two::First => se.serialize_unit_variant("Two", 0, "First"),
            Two::Second => se.serialize_unit_variant("Two", 1, "Second"),
        }
    }

    fn as_u8(&self, _human: bool) -> Option<u8> {
        None
    }
}

impl<'de, R: ReadSlice<'de>> Deserialize<'de, R> for Two {
    ghost reads = { λ human lends m v. OfVariant (codes "First" ∷ (codes "Second" ∷ []))
        (Case (λ c. (v ≡ the_two.First) × Bare c) (Case (λ c. (v ≡ the_two.Second) × Bare c) NoCase)) m };

    ghost absent = { None };

    ghost refuses = { RefusesEnum (codes "First" ∷ (codes "Second" ∷ [])) (no_content ∷ (no_content ∷ [])) };

    fn deserialize<C: SerializerConfig>(
        de: &mut Deserializer<R, C>,
    ) -> Result<Two, rmp_decode::Error> {
        match de.deserialize_enum(&["First", "Second"]) {
            Ok((0, variant)) => match variant.unit_variant() {
                Ok(()) => return Ok(Two::First),
                Err(e) => return Err(e),
            },
            Ok((_, variant)) => match variant.unit_variant() {
                Ok(()) => return Ok(Two::Second),
                Err(e) => return Err(e),
            },
            Err(e) => return Err(e),
        }
    }

    fn missing() -> Option<Two> {
        None
    }
}

impl<'de, R: ReadSlice<'de>> RoundTrip<'de, R> for Two {
    ghost has_data = { λ human. elim [ the_two.First ↦ refl | the_two.Second ↦ refl ] };

    ghost round = { λ lent s. let names = codes "First" ∷ (codes "Second" ∷ [])
        in elim [
          | the_two.First ↦ λ fits. bare_row s names (codes "First") 0 refl _ (refl, tt)
          | the_two.Second ↦ λ fits. bare_row s names (codes "Second")
              1 refl _ (refl, tt)
        ] };

    ghost same = { λ v w. elim v [ the_two.First ↦ (w ≡ the_two.First) | the_two.Second ↦ (w ≡ the_two.Second) ] };

    ghost alike = { λ human. elim [
      | the_two.First ↦ λ w h. variant_alike (λ x. ⟦<Two as Serialize>⟧.data_of x human) w the_two.First h
          (λ i. Some (unit_variant (codes "First")))
      | the_two.Second ↦ λ w h. variant_alike (λ x. ⟦<Two as Serialize>⟧.data_of x human) w the_two.Second h
          (λ i. Some (unit_variant (codes "Second")))
    ] };

    ghost only = { λ s. let names = codes "First" ∷ (codes "Second" ∷ [])
        in elim [
          | the_two.First ↦ λ fits. lowers_then s (Some (unit_variant (codes "First"))) (OfVariant names (AtPlace 0 AnyContent)) (λ m. (w : _)
              → (⟦<Two as Deserialize<'de, R>>⟧.reads s.human R.lends) m w
              → (w ≡ the_two.First)) (bare_row s names (codes "First") 0 refl (AtPlace 0 AnyContent) (refl, tt))
              (λ m q w r. variant_both names 0 AnyContent _ _ m q r (λ c a b. b.0))
          | the_two.Second ↦ λ fits. lowers_then s
              (Some (unit_variant (codes "Second"))) (OfVariant names (AtPlace 1 AnyContent)) (λ m. (w : _)
              → (⟦<Two as Deserialize<'de, R>>⟧.reads s.human R.lends) m w
              → (w ≡ the_two.Second)) (bare_row s names (codes "Second") 1 refl (AtPlace 1 AnyContent) (refl, tt))
              (λ m q w r. variant_both names 1 AnyContent _ _ m q r (λ c a b. b.0))
        ] };
}

impl NeverNil for Two {
    ghost never_nil = { λ s. elim [ the_two.First ↦ bare_other s (codes "First") | the_two.Second ↦ bare_other s (codes "Second") ] };
}

impl<'de, R: ReadSlice<'de>> EndsInside<'de, R> for Two {
    ghost ends_inside = { enum_inside _ _ (no_content_inside, (no_content_inside, tt)) };
}

impl Serialize for Four {
    ghost data_of = { λ v human. elim v [
      | the_four.Unit ↦ Some (unit_variant (codes "Unit"))
      | the_four.New a1 ↦ newtype_variant_of (codes "New")
          (⟦<u8 as Serialize>⟧.data_of a1 human)
      | the_four.Tup a1 a2 ↦ tuple_variant_of (codes "Tup")
          (⟦<u8 as Serialize>⟧.data_of a1 human ∷ (⟦<u16 as Serialize>⟧.data_of a2 human ∷ []))
      | the_four.Str a1 a2 ↦ struct_variant_of (codes "Str")
          ((codes "a", ⟦<u8 as Serialize>⟧.data_of a1 human) ∷ ((codes "b", ⟦<String as Serialize>⟧.data_of a2 human) ∷ []))
    ] };

    ghost is_value = { λ v. elim v [
      | the_four.Unit ↦ ⊤
      | the_four.New a1 ↦ ⟦<u8 as Serialize>⟧.is_value a1
      | the_four.Tup a1 a2 ↦
          ⟦<u8 as Serialize>⟧.is_value a1 × ⟦<u16 as Serialize>⟧.is_value a2
      | the_four.Str a1 a2 ↦ ⟦<u8 as Serialize>⟧.is_value a1
          × ⟦<String as Serialize>⟧.is_value a2
    ] };

    ghost takes_memory = { λ s. one_of (false ∷ (⟦<u8 as Serialize>⟧.takes_memory s
        ∷ (one_of (⟦<u8 as Serialize>⟧.takes_memory s ∷ (⟦<u16 as Serialize>⟧.takes_memory s ∷ []))
        ∷ (one_of (⟦<u8 as Serialize>⟧.takes_memory s ∷ (⟦<String as Serialize>⟧.takes_memory s ∷ [])) ∷ [])))) };

    ghost refuses = { λ v. elim v [
      | the_four.Unit ↦ OfSink
      | the_four.New a1 ↦ OfParts ⊥ (⟦<u8 as Serialize>⟧.refuses a1 ∷ [])
      | the_four.Tup a1 a2 ↦
          OfParts ⊥ (⟦<u8 as Serialize>⟧.refuses a1 ∷ (⟦<u16 as Serialize>⟧.refuses a2 ∷ []))
      | the_four.Str a1 a2 ↦ OfParts ⊥
          (⟦<u8 as Serialize>⟧.refuses a1 ∷ (⟦<String as Serialize>⟧.refuses a2 ∷ []))
    ] };

    #[tactic(auto, unfolding(rmp_encode::specs::Data::lower))]
    fn serialize<W: Sink, C: SerializerConfig>(
        &self,
        se: &mut Serializer<W, C>,
    ) -> Result<(), rmp_encode::Error> {
        match self {
            Four::Unit => se.serialize_unit_variant("Four", 0, "Unit"),
            Four::New(first) => se.serialize_newtype_variant("Four", 1, "New", first),
            Four::Tup(first, second) => {
                let parts = rmp_encode::Both { first, second };
                se.serialize_tuple_variant_of("Four", 2, "Tup", &parts)
            }
            Four::Str { a, b } => {
                let parts = rmp_encode::Both {
                    first: a,
                    second: b,
                };
                se.serialize_struct_variant_of("Four", 3, "Str", &["a", "b"], &parts)
            }
        }
    }

    fn as_u8(&self, _human: bool) -> Option<u8> {
        match self {
            Four::Unit => None,
            Four::New(_) => None,
            Four::Tup(_, _) => None,
            Four::Str { .. } => None,
        }
    }
}

impl<'de, R: ReadSlice<'de>> Deserialize<'de, R> for Four {
    ghost reads = { λ human lends m v. OfVariant (codes "Unit" ∷ (codes "New" ∷ (codes "Tup" ∷ (codes "Str" ∷ []))))
        (Case (λ c. (v ≡ the_four.Unit) × Bare c) (Case (λ c. (a1 : _) × (v ≡ the_four.New a1)
        × Content (λ k. ⟦<u8 as Deserialize<'de, R>>⟧.reads human lends k a1) c)
        (Case (λ c. (a1 : _) × (a2 : _) × (v ≡ the_four.Tup a1 a2)
        × Content (λ k. OfRow (AndThen (λ j. ⟦<u8 as Deserialize<'de, R>>⟧.reads human lends j a1)
        (AndThen (λ j. ⟦<u16 as Deserialize<'de, R>>⟧.reads human lends j a2) NoMore)) k) c)
        (Case (λ c. (a1 : _) × (a2 : _) × (v ≡ the_four.Str a1 a2)
        × Content (λ k. OfFields (codes "a" ∷ (codes "b" ∷ []))
        (Field (λ j. ⟦<u8 as Deserialize<'de, R>>⟧.reads human lends j a1) (Absent ⟦<u8 as Deserialize<'de, R>>⟧.absent a1)
        (Field (λ j. ⟦<String as Deserialize<'de, R>>⟧.reads human lends j a2) (Absent ⟦<String as Deserialize<'de, R>>⟧.absent a2) NoField)) k) c)
        NoCase)))) m };

    ghost absent = { None };

    ghost refuses = { RefusesEnum (codes "Unit" ∷ (codes "New" ∷ (codes "Tup" ∷ (codes "Str" ∷ []))))
        (no_content ∷ (with_content (⟦<u8 as Deserialize<'de, R>>⟧.refuses)
        ∷ (with_content (RefusesTuple (part_of ⟦<u8 as Deserialize<'de, R>>⟧.reads ⟦<u8 as Deserialize<'de, R>>⟧.refuses
        ∷ (part_of ⟦<u16 as Deserialize<'de, R>>⟧.reads ⟦<u16 as Deserialize<'de, R>>⟧.refuses ∷ [])))
        ∷ (with_content (RefusesFields (codes "a" ∷ (codes "b" ∷ [])) ⟦<(u8, (String, ())) as ReadFields<'de, R>>⟧.needed
        ⟦<(u8, (String, ())) as ReadFields<'de, R>>⟧.parts) ∷ [])))) };

    fn deserialize<C: SerializerConfig>(
        de: &mut Deserializer<R, C>,
    ) -> Result<Four, rmp_decode::Error> {
        match de.deserialize_enum(&["Unit", "New", "Tup", "Str"]) {
            Ok((0, variant)) => match variant.unit_variant() {
                Ok(()) => return Ok(Four::Unit),
                Err(e) => return Err(e),
            },
            Ok((1, variant)) => match variant.newtype_variant() {
                Ok(first) => return Ok(Four::New(first)),
                Err(e) => return Err(e),
            },
            Ok((2, variant)) => match variant.newtype_variant() {
                Ok(parts) => {
                    let (first, second) = parts;
                    return Ok(Four::Tup(first, second));
                }
                Err(e) => return Err(e),
            },
            Ok((_, variant)) => match variant.fields_variant(&["a", "b"]) {
                Ok(parts) => {
                    let (a, (b, ())) = parts;
                    return Ok(Four::Str { a, b });
                }
                Err(e) => return Err(e),
            },
            Err(e) => return Err(e),
        }
    }

    fn missing() -> Option<Four> {
        None
    }
}

impl<'de, R: ReadSlice<'de>> RoundTrip<'de, R> for Four {
    ghost has_data = { λ human. elim [
      | the_four.Unit ↦ refl
      | the_four.New a1 ↦ newtype_variant_some (codes "New") (⟦<u8 as Serialize>⟧.data_of a1 human)
          refl
      | the_four.Tup a1 a2 ↦ tuple_variant_all (codes "Tup") (⟦<u8 as Serialize>⟧.data_of a1 human ∷ (⟦<u16 as Serialize>⟧.data_of a2 human ∷ []))
          (refl, (refl, tt))
      | the_four.Str a1 a2 ↦ struct_variant_all (codes "Str")
          ((codes "a", ⟦<u8 as Serialize>⟧.data_of a1 human) ∷ ((codes "b", ⟦<String as Serialize>⟧.data_of a2 human) ∷ [])) (refl, (refl, tt))
    ] };

    ghost round = { λ lent s. let names = codes "Unit" ∷ (codes "New" ∷ (codes "Tup" ∷ (codes "Str" ∷ [])))
        in elim [
          | the_four.Unit ↦ λ fits. bare_row s names (codes "Unit") 0 refl _ (refl, tt)
          | the_four.New a1 ↦ λ fits. newtype_variant_row s names
              (codes "New") 1 refl _ _ (λ j. ⟦<u8 as Deserialize<'de, R>>⟧.reads s.human R.lends j a1) (λ m h. (a1, refl, h)) (byte_row s a1 fits)
          | the_four.Tup
              a1 a2 ↦ λ fits. tuple_variant_row s names (codes "Tup") 2 refl _ _ _ (λ m h. (a1, a2, refl, h))
              (rows_cons s _ _ (λ j. ⟦<u8 as Deserialize<'de, R>>⟧.reads s.human R.lends j a1) _ (byte_row s a1 fits.0)
              (rows_cons s _ _ (λ j. ⟦<u16 as Deserialize<'de, R>>⟧.reads s.human R.lends j a2) _ (unsigned_row_16 s a2 fits.1) (rows_none s)))
          | the_four.Str a1
              a2 ↦ λ fits. struct_variant_row s names (codes "Str") 3 refl _ (codes "a" ∷ (codes "b" ∷ [])) _ _ refl (λ m h. (a1, a2, refl, h))
              (fields_cons s (codes "a") _ _ _ (λ j. ⟦<u8 as Deserialize<'de, R>>⟧.reads s.human R.lends j a1) (Absent ⟦<u8 as Deserialize<'de, R>>⟧.absent a1) _
              (byte_row s a1 fits.0) (fields_cons s (codes "b") _ _ _ (λ j. ⟦<String as Deserialize<'de, R>>⟧.reads s.human R.lends j a2)
              (Absent ⟦<String as Deserialize<'de, R>>⟧.absent a2) _ (string_row s (string_bytes a2)) (fields_none s)))
        ] };

    ghost same = { λ v w. elim v [
      | the_four.Unit ↦ (w ≡ the_four.Unit)
      | the_four.New a1 ↦ (b1 : _) × (w ≡ the_four.New b1)
          × ⟦<u8 as RoundTrip<'de, R>>⟧.same a1 b1
      | the_four.Tup a1 a2 ↦ (b1 : _) × (b2 : _) × (w ≡ the_four.Tup b1 b2)
          × ⟦<u8 as RoundTrip<'de, R>>⟧.same a1 b1 × ⟦<u16 as RoundTrip<'de, R>>⟧.same a2 b2
      | the_four.Str a1 a2 ↦ (b1 : _) × (b2 : _)
          × (w ≡ the_four.Str b1 b2) × ⟦<u8 as RoundTrip<'de, R>>⟧.same a1 b1 × ⟦<String as RoundTrip<'de, R>>⟧.same a2 b2
    ] };

    ghost alike = { λ human. elim [
      | the_four.Unit ↦ λ w h. variant_alike (λ x. ⟦<Four as Serialize>⟧.data_of x human) w the_four.Unit h
          (λ i. Some (unit_variant (codes "Unit")))
      | the_four.New a1 ↦ λ w h. variant_alike (λ x. ⟦<Four as Serialize>⟧.data_of x human) w (the_four.New h.0)
          h.1 (λ i. newtype_variant_of (codes "New") (⟦<u8 as Serialize>⟧.data_of (h.2 i) human))
      | the_four.Tup a1 a2 ↦ λ w h. variant_alike
          (λ x. ⟦<Four as Serialize>⟧.data_of x human) w (the_four.Tup h.0 h.1) h.2
          (λ i. tuple_variant_of (codes "Tup") ((⟦<u8 as Serialize>⟧.data_of (h.3 i) human) ∷ ((⟦<u16 as Serialize>⟧.data_of (h.4 i) human) ∷ [])))
      | the_four.Str a1 a2 ↦ λ w h. variant_alike (λ x. ⟦<Four as Serialize>⟧.data_of x human) w (the_four.Str h.0 h.1) h.2
          (λ i. struct_variant_of (codes "Str") ((codes "a", (⟦<u8 as Serialize>⟧.data_of (h.3 i) human))
          ∷ ((codes "b", (text_alike (string_bytes a2) (string_bytes h.1) h.4 i)) ∷ [])))
    ] };

    ghost only = { λ s. let names = codes "Unit" ∷ (codes "New" ∷ (codes "Tup" ∷ (codes "Str" ∷ [])))
        in elim [
          | the_four.Unit ↦ λ fits. lowers_then s (Some (unit_variant (codes "Unit"))) (OfVariant names (AtPlace 0 AnyContent)) (λ m. (w : _)
              → (⟦<Four as Deserialize<'de, R>>⟧.reads s.human R.lends) m w
              → (w ≡ the_four.Unit)) (bare_row s names (codes "Unit") 0 refl (AtPlace 0 AnyContent) (refl, tt))
              (λ m q w r. variant_both names 0 AnyContent _ _ m q r (λ c a b. b.0))
          | the_four.New a1 ↦ λ fits. lowers_then s _ _ (λ m. (w : _)
              → (⟦<Four as Deserialize<'de, R>>⟧.reads s.human R.lends) m w
              → (b1 : _) × (w ≡ the_four.New b1) × ⟦<u8 as RoundTrip<'de, R>>⟧.same a1 b1)
              (newtype_variant_row s names (codes "New") 1 refl (AtPlace 1
              (Content (λ j. Only (⟦<u8 as Deserialize<'de, R>>⟧.reads s.human R.lends) ⟦<u8 as RoundTrip<'de, R>>⟧.same j a1))) _
              (λ j. Only (⟦<u8 as Deserialize<'de, R>>⟧.reads s.human R.lends) ⟦<u8 as RoundTrip<'de, R>>⟧.same j a1) (λ m h. (refl, h)) (byte_only s a1))
              (λ m q w r. variant_both names 1 _ _ _ m q r (λ c a b.
              (b.0, b.1, content_only (⟦<u8 as Deserialize<'de, R>>⟧.reads s.human R.lends) ⟦<u8 as RoundTrip<'de, R>>⟧.same a1 b.0 c a b.2)))
          | the_four.Tup a1
              a2 ↦ λ fits. lowers_then s _ _ (λ m. (w : _) → (⟦<Four as Deserialize<'de, R>>⟧.reads s.human R.lends) m w
              → (b1 : _) × (b2 : _) × (w ≡ the_four.Tup b1 b2) × ⟦<u8 as RoundTrip<'de, R>>⟧.same a1 b1 × ⟦<u16 as RoundTrip<'de, R>>⟧.same a2 b2)
              (tuple_variant_row s names (codes "Tup") 2 refl (AtPlace 2
              (Content (OfRow (AndThen (λ j. Only (⟦<u8 as Deserialize<'de, R>>⟧.reads s.human R.lends) ⟦<u8 as RoundTrip<'de, R>>⟧.same j a1)
              (AndThen (λ j. Only (⟦<u16 as Deserialize<'de, R>>⟧.reads s.human R.lends) ⟦<u16 as RoundTrip<'de, R>>⟧.same j a2) NoMore))))) _ _
              (λ m h. (refl, h)) (rows_cons s _ _ (λ j. Only (⟦<u8 as Deserialize<'de, R>>⟧.reads s.human R.lends) ⟦<u8 as RoundTrip<'de, R>>⟧.same j a1) _
              (byte_only s a1) (rows_cons s _ _ (λ j. Only (⟦<u16 as Deserialize<'de, R>>⟧.reads s.human R.lends) ⟦<u16 as RoundTrip<'de, R>>⟧.same j a2) _
              (unsigned_only s 65535 a2) (rows_none s)))) (λ m q w r. variant_both names 2 _ _ _ m q r
              (λ c a b. content_row _ _ _ c a b.3 (λ ks i j. let x = item_only (⟦<u8 as Deserialize<'de, R>>⟧.reads s.human R.lends)
              ⟦<u8 as RoundTrip<'de, R>>⟧.same a1 b.0 _ _ _ (last_only (⟦<u16 as Deserialize<'de, R>>⟧.reads s.human R.lends) ⟦<u16 as RoundTrip<'de, R>>⟧.same a2
              b.1) ks i j in (b.0, b.1, b.2, x.0, x.1))))
          | the_four.Str a1 a2 ↦ λ fits. lowers_then s _ _ (λ m. (w : _)
              → (⟦<Four as Deserialize<'de, R>>⟧.reads s.human R.lends) m w
              → (b1 : _) × (b2 : _) × (w ≡ the_four.Str b1 b2) × ⟦<u8 as RoundTrip<'de, R>>⟧.same a1 b1 × ⟦<String as RoundTrip<'de, R>>⟧.same a2 b2)
              (struct_variant_row s names (codes "Str") 3 refl (AtPlace 3
              (Content (OfFields (codes "a" ∷ (codes "b" ∷ [])) (Field
              (λ j. Only (⟦<u8 as Deserialize<'de, R>>⟧.reads s.human R.lends) ⟦<u8 as RoundTrip<'de, R>>⟧.same j a1) ⊥
              (Field (λ j. Only (⟦<String as Deserialize<'de, R>>⟧.reads s.human R.lends) ⟦<String as RoundTrip<'de, R>>⟧.same j a2) ⊥ NoField)))))
              (codes "a" ∷ (codes "b" ∷ [])) _ _ refl (λ m h. (refl, h))
              (fields_cons s (codes "a") _ _ _ (λ j. Only (⟦<u8 as Deserialize<'de, R>>⟧.reads s.human R.lends) ⟦<u8 as RoundTrip<'de, R>>⟧.same j a1) ⊥ _
              (byte_only s a1) (fields_cons s (codes "b") _ _ _ (λ j. Only (⟦<String as Deserialize<'de, R>>⟧.reads s.human R.lends)
              ⟦<String as RoundTrip<'de, R>>⟧.same j a2) ⊥ _ (string_only s (λ w. string_bytes w) (string_bytes a2)) (fields_none s))))
              (λ m q w r. variant_both names 3 _ _ _ m q r (λ c a b. content_fields (codes "a" ∷ (codes "b" ∷ [])) _ _ _ c a b.3
              (λ ks i j. let x = field_only (⟦<u8 as Deserialize<'de, R>>⟧.reads s.human R.lends) ⟦<u8 as RoundTrip<'de, R>>⟧.same a1 b.0 _ _ _ _
              (last_field (⟦<String as Deserialize<'de, R>>⟧.reads s.human R.lends) ⟦<String as RoundTrip<'de, R>>⟧.same a2 b.1 _) ks i j
              in (b.0, b.1, b.2, x.0, x.1))))
        ] };
}

impl NeverNil for Four {
    ghost never_nil = { λ s. elim [
      | the_four.Unit ↦ bare_other s (codes "Unit")
      | the_four.New a1 ↦ newtype_variant_other s (codes "New") _
      | the_four.Tup
          a1 a2 ↦ tuple_variant_other s (codes "Tup") _
      | the_four.Str a1 a2 ↦ struct_variant_other s (codes "Str") _
    ] };
}

impl<'de, R: ReadSlice<'de>> EndsInside<'de, R> for Four {
    ghost ends_inside = { enum_inside _ _ (
      no_content_inside,
      (
        with_content_inside _ (number_inside),
        (
          with_content_inside _
              (tuple_inside (part_of ⟦<u8 as Deserialize<'de, R>>⟧.reads ⟦<u8 as Deserialize<'de, R>>⟧.refuses
              ∷ (part_of ⟦<u16 as Deserialize<'de, R>>⟧.reads ⟦<u16 as Deserialize<'de, R>>⟧.refuses ∷ [])) (number_inside, (number_inside, tt))),
          (with_content_inside _ (fields_inside _ _ _ (number_inside, (string_inside, tt))), tt),
        ),
      ),
    ) };
}

impl<T: Serialize> Serialize for Mixed<T> {
    ghost data_of = { λ v human. elim v [
      | the_mixed.Other a1 ↦ newtype_variant_of (codes "Other") (T.data_of a1 human)
      | the_mixed.Kept a1 a2 ↦
          struct_variant_of (codes "Kept") ((codes "four", ⟦<Option<Four> as Serialize>⟧.data_of a1 human)
          ∷ ((codes "dog", ⟦<Dog as Serialize>⟧.data_of a2 human) ∷ []))
    ] };

    ghost is_value = { λ v. elim v [
      | the_mixed.Other a1 ↦ T.is_value a1
      | the_mixed.Kept a1 a2 ↦ ⟦<Option<Four> as Serialize>⟧.is_value a1
          × ⟦<Dog as Serialize>⟧.is_value a2
    ] };

    ghost takes_memory = { λ s. one_of (T.takes_memory s
        ∷ (one_of (⟦<Option<Four> as Serialize>⟧.takes_memory s ∷ (⟦<Dog as Serialize>⟧.takes_memory s ∷ [])) ∷ [])) };

    ghost refuses = { λ v. elim v [
      | the_mixed.Other a1 ↦ OfParts ⊥ (T.refuses a1 ∷ [])
      | the_mixed.Kept a1 a2 ↦ OfParts ⊥
          (⟦<Option<Four> as Serialize>⟧.refuses a1 ∷ (⟦<Dog as Serialize>⟧.refuses a2 ∷ []))
    ] };

    fn serialize<W: Sink, C: SerializerConfig>(
        &self,
        se: &mut Serializer<W, C>,
    ) -> Result<(), rmp_encode::Error> {
        match self {
            Mixed::Other(first) => se.serialize_newtype_variant("Mixed", 0, "Other", first),
            Mixed::Kept { four, dog } => {
                let parts = rmp_encode::Both {
                    first: four,
                    second: dog,
                };
                se.serialize_struct_variant_of("Mixed", 1, "Kept", &["four", "dog"], &parts)
            }
        }
    }

    fn as_u8(&self, _human: bool) -> Option<u8> {
        match self {
            Mixed::Other(_) => None,
            Mixed::Kept { .. } => None,
        }
    }
}

impl<'de, R: ReadSlice<'de>, T: Deserialize<'de, R>> Deserialize<'de, R> for Mixed<T> {
    ghost reads = { λ human lends m v. OfVariant (codes "Other" ∷ (codes "Kept" ∷ []))
        (Case (λ c. (a1 : _) × (v ≡ the_mixed.Other a1) × Content (λ k. T.reads human lends k a1) c)
        (Case (λ c. (a1 : _) × (a2 : _) × (v ≡ the_mixed.Kept a1 a2)
        × Content (λ k. OfFields (codes "four" ∷ (codes "dog" ∷ []))
        (Field (λ j. ⟦<Option<Four> as Deserialize<'de, R>>⟧.reads human lends j a1) (Absent ⟦<Option<Four> as Deserialize<'de, R>>⟧.absent a1)
        (Field (λ j. ⟦<Dog as Deserialize<'de, R>>⟧.reads human lends j a2) (Absent ⟦<Dog as Deserialize<'de, R>>⟧.absent a2) NoField)) k) c) NoCase)) m };

    ghost absent = { None };

    ghost refuses = { RefusesEnum (codes "Other" ∷ (codes "Kept" ∷ []))
        (with_content (T.refuses) ∷ (with_content (RefusesFields (codes "four" ∷ (codes "dog" ∷ []))
        ⟦<(Option<Four>, (Dog, ())) as ReadFields<'de, R>>⟧.needed
        ⟦<(Option<Four>, (Dog, ())) as ReadFields<'de, R>>⟧.parts) ∷ [])) };

    fn deserialize<C: SerializerConfig>(
        de: &mut Deserializer<R, C>,
    ) -> Result<Mixed<T>, rmp_decode::Error> {
        match de.deserialize_enum(&["Other", "Kept"]) {
            Ok((0, variant)) => match variant.newtype_variant() {
                Ok(first) => return Ok(Mixed::Other(first)),
                Err(e) => return Err(e),
            },
            Ok((_, variant)) => match variant.fields_variant(&["four", "dog"]) {
                Ok(parts) => {
                    let (four, (dog, ())) = parts;
                    return Ok(Mixed::Kept { four, dog });
                }
                Err(e) => return Err(e),
            },
            Err(e) => return Err(e),
        }
    }

    fn missing() -> Option<Mixed<T>> {
        None
    }
}

impl<'de, R: ReadSlice<'de>, T: RoundTrip<'de, R>> RoundTrip<'de, R> for Mixed<T> {
    ghost use Rattle.test_derived.specs.contracts.structs.derived.DogRoundTrip.TheImpl.Laws as dog_rounds;
    ghost use Rattle.test_derived.specs.contracts.enums.derived.FourNeverNil.TheImpl.Laws as four_other;
    ghost use Rattle.test_derived.specs.contracts.enums.derived.FourRoundTrip.TheImpl.Laws as four_rounds;
    ghost use mir.Syntax.{given};

    ghost borrows = { T.borrows };

    ghost has_data = { λ human. elim [
      | the_mixed.Other a1 ↦ newtype_variant_some (codes "Other") (T.data_of a1 human) (T.has_data human a1)
      | the_mixed.Kept a1 a2 ↦ struct_variant_all (codes "Kept")
          ((codes "four", ⟦<Option<Four> as Serialize>⟧.data_of a1 human) ∷ ((codes "dog", ⟦<Dog as Serialize>⟧.data_of a2 human) ∷ [])) (
            (option_some (λ x. ⟦<Four as Serialize>⟧.data_of x human)
                (λ x1. (four_rounds.has_data-law R.row R.ReadSlice.own (given 0) R.Source (given 0) human x1)) a1),
            ((dog_rounds.has_data-law R.row R.ReadSlice.own (given 0) R.Source (given 0) human a2), tt),
          )
    ] };

    ghost round = { λ lent s. let names = codes "Other" ∷ (codes "Kept" ∷ [])
        in elim [
          | the_mixed.Other a1 ↦ λ fits. newtype_variant_row s names (codes "Other") 0 refl _ _ (λ j. T.reads s.human R.lends j a1)
              (λ m h. (a1, refl, h)) (T.round lent s a1 fits)
          | the_mixed.Kept a1 a2 ↦ λ fits. struct_variant_row s names (codes "Kept") 1 refl _
              (codes "four" ∷ (codes "dog" ∷ [])) _ _ refl (λ m h. (a1, a2, refl, h))
              (fields_cons s (codes "four") _ _ _ (λ j. ⟦<Option<Four> as Deserialize<'de, R>>⟧.reads s.human R.lends j a1)
              (Absent ⟦<Option<Four> as Deserialize<'de, R>>⟧.absent a1) _
              (option_row s (λ x. ⟦<Four as Serialize>⟧.data_of x s.human) ⟦<Four as Serialize>⟧.is_value (⟦<Four as Deserialize<'de, R>>⟧.reads s.human R.lends)
              (λ x5. four_other.never_nil-law s x5) (λ x4 h4. (four_rounds.round-law R.row R.ReadSlice.own (given 0) R.Source (given 0) (λ e. cc) s x4 h4)) a1
              fits.0) (fields_cons s (codes "dog") _ _ _ (λ j. ⟦<Dog as Deserialize<'de, R>>⟧.reads s.human R.lends j a2)
              (Absent ⟦<Dog as Deserialize<'de, R>>⟧.absent a2) _ (dog_rounds.round-law R.row R.ReadSlice.own (given 0) R.Source (given 0) (λ e. cc) s a2 fits.1)
              (fields_none s)))
        ] };

    ghost same = { λ v w. elim v [
      | the_mixed.Other a1 ↦ (b1 : _) × (w ≡ the_mixed.Other b1) × T.same a1 b1
      | the_mixed.Kept a1 a2 ↦ (b1 : _) × (b2 : _)
          × (w ≡ the_mixed.Kept b1 b2) × ⟦<Option<Four> as RoundTrip<'de, R>>⟧.same a1 b1 × ⟦<Dog as RoundTrip<'de, R>>⟧.same a2 b2
    ] };

    ghost alike = { λ human. elim [
      | the_mixed.Other a1 ↦ λ w h. variant_alike (λ x. ⟦<Mixed<T> as Serialize>⟧.data_of x human) w (the_mixed.Other h.0) h.1
          (λ i. newtype_variant_of (codes "Other") (T.alike human a1 h.0 h.2 i))
      | the_mixed.Kept a1 a2 ↦ λ w h. variant_alike
          (λ x. ⟦<Mixed<T> as Serialize>⟧.data_of x human) w (the_mixed.Kept h.0 h.1) h.2
          (λ i. struct_variant_of (codes "Kept") ((
            codes "four",
            (option_alike ⟦<Four as RoundTrip<'de, R>>⟧.same (λ x. ⟦<Four as Serialize>⟧.data_of x human)
                (λ x3 yx3 h3 i. (four_rounds.alike-law R.row R.ReadSlice.own (given 0) R.Source (given 0) human x3 yx3 h3 i)) a1 h.0 h.3 i),
          )
          ∷ ((codes "dog", (dog_rounds.alike-law R.row R.ReadSlice.own (given 0) R.Source (given 0) human a2 h.1 h.4 i)) ∷ [])))
    ] };

    ghost only = { λ s. let names = codes "Other" ∷ (codes "Kept" ∷ [])
        in elim [
          | the_mixed.Other a1 ↦ λ fits. lowers_then s _ _ (λ m. (w : _) → (⟦<Mixed<T> as Deserialize<'de, R>>⟧.reads s.human R.lends) m w
              → (b1 : _) × (w ≡ the_mixed.Other b1) × T.same a1 b1)
              (newtype_variant_row s names (codes "Other") 0 refl (AtPlace 0 (Content (λ j. Only (T.reads s.human R.lends) T.same j a1))) _
              (λ j. Only (T.reads s.human R.lends) T.same j a1) (λ m h. (refl, h)) (T.only s a1 fits))
              (λ m q w r. variant_both names 0 _ _ _ m q r (λ c a b. (b.0, b.1, content_only (T.reads s.human R.lends) T.same a1 b.0 c a b.2)))
          | the_mixed.Kept
              a1 a2 ↦ λ fits. lowers_then s _ _ (λ m. (w : _) → (⟦<Mixed<T> as Deserialize<'de, R>>⟧.reads s.human R.lends) m w
              → (b1 : _) × (b2 : _) × (w ≡ the_mixed.Kept b1 b2) × ⟦<Option<Four> as RoundTrip<'de, R>>⟧.same a1 b1 × ⟦<Dog as RoundTrip<'de, R>>⟧.same a2 b2)
              (struct_variant_row s names (codes "Kept") 1 refl (AtPlace 1
              (Content (OfFields (codes "four" ∷ (codes "dog" ∷ []))
              (Field (λ j. Only (⟦<Option<Four> as Deserialize<'de, R>>⟧.reads s.human R.lends) ⟦<Option<Four> as RoundTrip<'de, R>>⟧.same j a1) ⊥
              (Field (λ j. Only (⟦<Dog as Deserialize<'de, R>>⟧.reads s.human R.lends) ⟦<Dog as RoundTrip<'de, R>>⟧.same j a2) ⊥ NoField)))))
              (codes "four" ∷ (codes "dog" ∷ [])) _ _ refl (λ m h. (refl, h))
              (fields_cons s (codes "four") _ _ _ (λ j. Only (⟦<Option<Four> as Deserialize<'de, R>>⟧.reads s.human R.lends)
              ⟦<Option<Four> as RoundTrip<'de, R>>⟧.same j a1) ⊥ _
              (option_only s _ (⟦<Four as Deserialize<'de, R>>⟧.reads s.human R.lends) ⟦<Four as RoundTrip<'de, R>>⟧.same a1
              (option_row s (λ x. ⟦<Four as Serialize>⟧.data_of x s.human) ⟦<Four as Serialize>⟧.is_value
              (Only (⟦<Four as Deserialize<'de, R>>⟧.reads s.human R.lends) ⟦<Four as RoundTrip<'de, R>>⟧.same) (λ x2. four_other.never_nil-law s x2)
              (λ x1 h1. (four_rounds.only-law R.row R.ReadSlice.own (given 0) R.Source (given 0) s x1 h1)) a1 fits.0))
              (fields_cons s (codes "dog") _ _ _ (λ j. Only (⟦<Dog as Deserialize<'de, R>>⟧.reads s.human R.lends) ⟦<Dog as RoundTrip<'de, R>>⟧.same j a2) ⊥ _
              (dog_rounds.only-law R.row R.ReadSlice.own (given 0) R.Source (given 0) s a2 fits.1) (fields_none s))))
              (λ m q w r. variant_both names 1 _ _ _ m q r (λ c a b. content_fields (codes "four" ∷ (codes "dog" ∷ [])) _ _ _ c a b.3
              (λ ks i j. let x = field_only (⟦<Option<Four> as Deserialize<'de, R>>⟧.reads s.human R.lends) ⟦<Option<Four> as RoundTrip<'de, R>>⟧.same a1 b.0 _ _
              _ _ (last_field (⟦<Dog as Deserialize<'de, R>>⟧.reads s.human R.lends) ⟦<Dog as RoundTrip<'de, R>>⟧.same a2 b.1 _) ks i j
              in (b.0, b.1, b.2, x.0, x.1))))
        ] };
}

impl<T: Serialize> NeverNil for Mixed<T> {
    ghost never_nil = { λ s. elim [
      | the_mixed.Other a1 ↦ newtype_variant_other s (codes "Other") _
      | the_mixed.Kept a1 a2 ↦ struct_variant_other s
          (codes "Kept") _
    ] };
}

impl<'de, R: ReadSlice<'de>, T: EndsInside<'de, R>> EndsInside<'de, R> for Mixed<T> {
    ghost use Rattle.test_derived.specs.contracts.structs.derived.DogEndsInside.TheImpl.Laws as dog_ends;
    ghost use Rattle.test_derived.specs.contracts.enums.derived.FourEndsInside.TheImpl.Laws as four_ends;
    ghost use mir.Syntax.{given};

    ghost ends_inside = { enum_inside _ _ (
      with_content_inside _ (T.ends_inside),
      (
        with_content_inside _ (fields_inside _ _ _ (
          (option_inside ⟦<Four as Deserialize<'de, R>>⟧.refuses
              (four_ends.ends_inside-law R.row R.ReadSlice.own (given 0) R.Source (given 0))),
          ((dog_ends.ends_inside-law R.row R.ReadSlice.own (given 0) R.Source (given 0)), tt),
        )),
        tt,
      ),
    ) };
}
