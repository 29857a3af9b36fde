//! How the types of kinds.rt are written and read. Written by tools/derive.py.
//!
//! Sum of Pair: 3243e35d.
//! Sum of Either: aaf78749.
//! Sum of Sorted: c74810f1.
//! Sum of Kennel: 04c42596.
//! Sum of Row: 04362a13.
//! Sum of Guests: ef313941.
ghost use Rattle.rmp_decode.specs.Arrays.{Exactly};
ghost use Rattle.rmp_decode.specs.EnumRefusing.{RefusesEnum, with_content};
ghost use Rattle.rmp_decode.specs.FieldRefusing.{RefusesFields};
ghost use Rattle.rmp_decode.specs.Fields.{OfFields, Field, Absent, NoField};
ghost use Rattle.rmp_decode.specs.Refusing.{RefusesTuple, part_of};
ghost use Rattle.rmp_decode.specs.Rows.{AndThen, NoMore, ReadsEach};
ghost use Rattle.rmp_decode.specs.Seq.{OfRow};
ghost use Rattle.rmp_decode.specs.Variants.{OfVariant, Case, NoCase, Content};
ghost use Rattle.rmp_encode.specs.Refusals.{OfParts};
ghost use Rattle.rmp_encode.specs.Sizes.{one_of};
ghost use Rattle.rmp_encode.specs.Trees.{sequence_of, structure_of, newtype_variant_of, struct_variant_of, tree_of, tuple_of};
ghost use Rattle.rmp_ends.specs.EnumEnds.{enum_inside, with_content_inside};
ghost use Rattle.rmp_ends.specs.FieldEnds.{fields_inside};
ghost use Rattle.rmp_ends.specs.LeafEnds.{kind_inside, number_inside, char_inside, string_inside};
ghost use Rattle.rmp_ends.specs.MapEnds.{map_inside};
ghost use Rattle.rmp_ends.specs.RowEnds.{array_inside, box_inside, each_inside, option_inside, tuple_inside};
ghost use Rattle.rmp_round_trip.specs.AlikeData.{array_alike, mapping_alike, option_alike, sequence_alike, slice_alike, text_alike, variant_alike};
ghost use Rattle.rmp_round_trip.specs.AlikeOrder.{tied};
ghost use Rattle.rmp_round_trip.specs.LeafRounds.{signed_row_32, truth_row, char_row, string_row};
ghost use Rattle.rmp_round_trip.specs.LeafRounds.{unsigned_row_16, unsigned_row_64, signed_row_8, signed_row_16};
ghost use Rattle.rmp_round_trip.specs.MapRounds.{mapping_some, map_row, pairs_row, set_row};
ghost use Rattle.rmp_round_trip.specs.OnlyFields.{AtPlace, content_fields, content_only, field_only, fields_both, last_field, variant_both};
ghost use Rattle.rmp_round_trip.specs.OnlyLeaves.{truth_only, unsigned_only, signed_only, char_only, string_only};
ghost use Rattle.rmp_round_trip.specs.OnlyMaps.{entries_only, set_only};
ghost use Rattle.rmp_round_trip.specs.OnlyRows.{array_only, item_only, last_only, list_only, lowers_then, option_only, row_both};
ghost use Rattle.rmp_round_trip.specs.RoundTrip.{LowersTo, Only};
ghost use Rattle.rmp_round_trip.specs.Rounds.{each_some, each_row, rows_map, option_some, option_row, slice_some, slice_row};
ghost use Rattle.rmp_round_trip.specs.Rounds.{tuple_some, tuple_row, sequence_some, sequence_row, sequence_other, rows_none, rows_cons};
ghost use Rattle.rmp_round_trip.specs.StructRounds.{sequence_all, tuple_all, structure_all, struct_variant_all};
ghost use Rattle.rmp_round_trip.specs.StructRounds.{structure_row, structure_other, fields_none, fields_cons};
ghost use Rattle.rmp_round_trip.specs.VariantRounds.{newtype_variant_other, struct_variant_other};
ghost use Rattle.rmp_round_trip.specs.VariantRounds.{newtype_variant_some, newtype_variant_row, struct_variant_row};
ghost use Rattle.rmp_wire.specs.Msg.{nil};
ghost use Rattle.std.proofs.Common.{refl, rules};
ghost use Rattle.std.proofs.lemmas.Cmp.{on_total, nat_list_cmp_total};
ghost use Rattle.std.specs.Cmp.Lexicographic.{slice_cmp};
ghost use Rattle.std.specs.Cmp.Rules.{comparing};
ghost use Rattle.std.specs.Option.{is_none};
ghost use Rattle.std.specs.Ordering.{nat_cmp};
ghost use Rattle.std.specs.Prelude.{◌≡◌, ◌≢◌, ◌∷◌, [], None, Some, codes, IsSome, string_bytes, pos, negsuc};
ghost use Rattle.test_derived.specs.declared.enums.Mixed.TheVariants as the_mixed;
ghost use Rattle.test_derived.specs.declared.kinds.Either.TheVariants as the_either;

use super::{
    BTreeMap, BTreeSet, Counted, Dog, Either, Four, Guests, Kennel, Mixed, Opt, Pair, Row, Sorted,
    VecDeque,
};
use rmp_decode::{Deserialize, Deserializer, ReadFields};
use rmp_encode::{Serialize, Serializer};
use rmp_ends::EndsInside;
use rmp_round_trip::{ContentOrd, NeverNil, RoundTrip};
use rmp_wire::config::SerializerConfig;
use rmp_wire::{ReadSlice, Sink};

impl<T: Serialize> Serialize for Pair<T> {
    ghost data_of = { λ v human. sequence_of (T.data_of v.0 human ∷ (T.data_of v.1 human ∷ [])) };

    ghost is_value = { λ v. T.is_value v.0 × T.is_value v.1 };

    ghost takes_memory = { λ s. one_of (T.takes_memory s ∷ (T.takes_memory s ∷ [])) };

    ghost refuses = { λ v. OfParts ⊥ (T.refuses v.0 ∷ (T.refuses v.1 ∷ [])) };

    fn serialize<W: Sink, C: SerializerConfig>(
        &self,
        se: &mut Serializer<W, C>,
    ) -> Result<(), rmp_encode::Error> {
        let parts = rmp_encode::Both {
            first: &self.0,
            second: &self.1,
        };
        se.serialize_elements("Pair", &parts)
    }

    #[tactic(auto, using(rmp_encode::proofs::Lists::sequence_no_byte))]
    fn as_u8(&self, _human: bool) -> Option<u8> {
        None
    }
}

impl<'de, R: ReadSlice<'de>, T: Deserialize<'de, R>> Deserialize<'de, R> for Pair<T> {
    ghost reads = { λ human lends m v. OfRow (AndThen (λ j. T.reads human lends j v.0) (AndThen (λ j. T.reads human lends j v.1) NoMore)) m };

    ghost absent = { None };

    ghost refuses = { RefusesTuple (part_of T.reads T.refuses ∷ (part_of T.reads T.refuses ∷ [])) };

    #[inline(always)]
    fn deserialize<C: SerializerConfig>(
        de: &mut Deserializer<R, C>,
    ) -> Result<Pair<T>, rmp_decode::Error> {
        let read: Result<(T, T), rmp_decode::Error> = Deserialize::deserialize(de);
        match read {
            Ok(parts) => {
                let (first, second) = parts;
                return Ok(Pair(first, second));
            }
            Err(e) => return Err(e),
        }
    }

    fn missing() -> Option<Pair<T>> {
        None
    }
}

impl<'de, R: ReadSlice<'de>, T: RoundTrip<'de, R>> RoundTrip<'de, R> for Pair<T> {
    ghost borrows = { T.borrows };

    ghost has_data = { λ human v. sequence_all (T.data_of v.0 human ∷ (T.data_of v.1 human ∷ [])) ((T.has_data human v.0), ((T.has_data human v.1), tt)) };

    ghost round = { λ lent s v fits. sequence_row s _ _
        (rows_cons s _ _ (λ j. T.reads s.human R.lends j v.0) _ (T.round lent s v.0 fits.0)
        (rows_cons s _ _ (λ j. T.reads s.human R.lends j v.1) _ (T.round lent s v.1 fits.1) (rows_none s))) };

    ghost same = { λ v w. T.same v.0 w.0 × T.same v.1 w.1 };

    ghost alike = { λ human v w h i. sequence_of ((T.alike human v.0 w.0 h.0 i) ∷ ((T.alike human v.1 w.1 h.1 i) ∷ [])) };

    ghost only = { λ s v fits. lowers_then s _ _ (λ m. (w : _) → (⟦<Pair<T> as Deserialize<'de, R>>⟧.reads s.human R.lends) m w
        → T.same v.0 w.0 × T.same v.1 w.1) (sequence_row s _ _
        (rows_cons s _ _ (λ j. Only (T.reads s.human R.lends) T.same j v.0) _ (T.only s v.0 fits.0)
        (rows_cons s _ _ (λ j. Only (T.reads s.human R.lends) T.same j v.1) _ (T.only s v.1 fits.1) (rows_none s))))
        (λ m q w r. row_both _ _ _ m q r (item_only (T.reads s.human R.lends) T.same v.0 w.0 _ _ _ (last_only (T.reads s.human R.lends) T.same v.1 w.1))) };
}

impl<T: Serialize> NeverNil for Pair<T> {
    ghost never_nil = { λ s v. sequence_other s _ };
}

impl<'de, R: ReadSlice<'de>, T: EndsInside<'de, R>> EndsInside<'de, R> for Pair<T> {
    ghost ends_inside = { tuple_inside (part_of T.reads T.refuses ∷ (part_of T.reads T.refuses ∷ [])) (T.ends_inside, (T.ends_inside, tt)) };
}

impl<T: Serialize> Serialize for Either<T> {
    ghost data_of = { λ v human. elim v [
      | the_either.Left a1 ↦ newtype_variant_of (codes "Left") (T.data_of a1 human)
      | the_either.Right a1 a2 ↦
          struct_variant_of (codes "Right") ((codes "by", ⟦<i32 as Serialize>⟧.data_of a1 human)
          ∷ ((codes "pair", ⟦<Option<Pair<T>> as Serialize>⟧.data_of a2 human) ∷ []))
    ] };

    ghost is_value = { λ v. elim v [
      | the_either.Left a1 ↦ T.is_value a1
      | the_either.Right a1 a2 ↦ ⟦<i32 as Serialize>⟧.is_value a1
          × ⟦<Option<Pair<T>> as Serialize>⟧.is_value a2
    ] };

    ghost takes_memory = { λ s. one_of (T.takes_memory s
        ∷ (one_of (⟦<i32 as Serialize>⟧.takes_memory s ∷ (⟦<Option<Pair<T>> as Serialize>⟧.takes_memory s ∷ [])) ∷ [])) };

    ghost refuses = { λ v. elim v [
      | the_either.Left a1 ↦ OfParts ⊥ (T.refuses a1 ∷ [])
      | the_either.Right a1 a2 ↦ OfParts ⊥
          (⟦<i32 as Serialize>⟧.refuses a1 ∷ (⟦<Option<Pair<T>> as Serialize>⟧.refuses a2 ∷ []))
    ] };

    fn serialize<W: Sink, C: SerializerConfig>(
        &self,
        se: &mut Serializer<W, C>,
    ) -> Result<(), rmp_encode::Error> {
        match self {
            Either::Left(first) => se.serialize_newtype_variant("Either", 0, "Left", first),
            Either::Right { by, pair } => {
                let parts = rmp_encode::Both {
                    first: by,
                    second: pair,
                };
                se.serialize_struct_variant_of("Either", 1, "Right", &["by", "pair"], &parts)
            }
        }
    }

    fn as_u8(&self, _human: bool) -> Option<u8> {
        match self {
            Either::Left(_) => None,
            Either::Right { .. } => None,
        }
    }
}

impl<'de, R: ReadSlice<'de>, T: Deserialize<'de, R>> Deserialize<'de, R> for Either<T> {
    ghost reads = { λ human lends m v. OfVariant (codes "Left" ∷ (codes "Right" ∷ []))
        (Case (λ c. (a1 : _) × (v ≡ the_either.Left a1) × Content (λ k. T.reads human lends k a1) c)
        (Case (λ c. (a1 : _) × (a2 : _) × (v ≡ the_either.Right a1 a2)
        × Content (λ k. OfFields (codes "by" ∷ (codes "pair" ∷ []))
        (Field (λ j. ⟦<i32 as Deserialize<'de, R>>⟧.reads human lends j a1) (Absent ⟦<i32 as Deserialize<'de, R>>⟧.absent a1)
        (Field (λ j. ⟦<Option<Pair<T>> as Deserialize<'de, R>>⟧.reads human lends j a2) (Absent ⟦<Option<Pair<T>> as Deserialize<'de, R>>⟧.absent a2)
        NoField)) k) c) NoCase)) m };

    ghost absent = { None };

    ghost refuses = { RefusesEnum (codes "Left" ∷ (codes "Right" ∷ []))
        (with_content (T.refuses) ∷ (with_content (RefusesFields (codes "by" ∷ (codes "pair" ∷ []))
        ⟦<(i32, (Option<Pair<T>>, ())) as ReadFields<'de, R>>⟧.needed
        ⟦<(i32, (Option<Pair<T>>, ())) as ReadFields<'de, R>>⟧.parts) ∷ [])) };

    fn deserialize<C: SerializerConfig>(
        de: &mut Deserializer<R, C>,
    ) -> Result<Either<T>, rmp_decode::Error> {
        match de.deserialize_enum(&["Left", "Right"]) {
            Ok((0, variant)) => match variant.newtype_variant() {
                Ok(first) => return Ok(Either::Left(first)),
                Err(e) => return Err(e),
            },
            Ok((_, variant)) => match variant.fields_variant(&["by", "pair"]) {
                Ok(parts) => {
                    let (by, (pair, ())) = parts;
                    return Ok(Either::Right { by, pair });
                }
                Err(e) => return Err(e),
            },
            Err(e) => return Err(e),
        }
    }

    fn missing() -> Option<Either<T>> {
        None
    }
}

impl<'de, R: ReadSlice<'de>, T: RoundTrip<'de, R>> RoundTrip<'de, R> for Either<T> {
    ghost borrows = { T.borrows };

    ghost has_data = { λ human. elim [
      | the_either.Left a1 ↦ newtype_variant_some (codes "Left") (T.data_of a1 human) (T.has_data human a1)
      | the_either.Right a1 a2 ↦ struct_variant_all (codes "Right")
          ((codes "by", ⟦<i32 as Serialize>⟧.data_of a1 human) ∷ ((codes "pair", ⟦<Option<Pair<T>> as Serialize>⟧.data_of a2 human) ∷ [])) (
            refl,
            (
              (option_some (λ x. ⟦<Pair<T> as Serialize>⟧.data_of x human)
                  (λ x1. (sequence_all (T.data_of x1.0 human ∷ (T.data_of x1.1 human ∷ [])) ((T.has_data human x1.0), ((T.has_data human x1.1), tt)))) a2),
              tt,
            ),
          )
    ] };

    ghost round = { λ lent s. let names = codes "Left" ∷ (codes "Right" ∷ [])
        in elim [
          | the_either.Left a1 ↦ λ fits. newtype_variant_row s names (codes "Left") 0 refl _ _ (λ j. T.reads s.human R.lends j a1)
              (λ m h. (a1, refl, h)) (T.round lent s a1 fits)
          | the_either.Right a1 a2 ↦ λ fits. struct_variant_row s names (codes "Right") 1 refl _
              (codes "by" ∷ (codes "pair" ∷ [])) _ _ refl (λ m h. (a1, a2, refl, h))
              (fields_cons s (codes "by") _ _ _ (λ j. ⟦<i32 as Deserialize<'de, R>>⟧.reads s.human R.lends j a1) (Absent ⟦<i32 as Deserialize<'de, R>>⟧.absent a1)
              _ (signed_row_32 s a1 fits.0) (fields_cons s (codes "pair") _ _ _ (λ j. ⟦<Option<Pair<T>> as Deserialize<'de, R>>⟧.reads s.human R.lends j a2)
              (Absent ⟦<Option<Pair<T>> as Deserialize<'de, R>>⟧.absent a2) _
              (option_row s (λ x. ⟦<Pair<T> as Serialize>⟧.data_of x s.human) ⟦<Pair<T> as Serialize>⟧.is_value
              (⟦<Pair<T> as Deserialize<'de, R>>⟧.reads s.human R.lends) (λ x4. sequence_other s _)
              (λ x3 h3. (sequence_row s _ _ (rows_cons s _ _ (λ j. T.reads s.human R.lends j x3.0) _ (T.round lent s x3.0 h3.0)
              (rows_cons s _ _ (λ j. T.reads s.human R.lends j x3.1) _ (T.round lent s x3.1 h3.1) (rows_none s))))) a2 fits.1) (fields_none s)))
        ] };

    ghost same = { λ v w. elim v [
      | the_either.Left a1 ↦ (b1 : _) × (w ≡ the_either.Left b1) × T.same a1 b1
      | the_either.Right a1 a2 ↦ (b1 : _) × (b2 : _)
          × (w ≡ the_either.Right b1 b2) × ⟦<i32 as RoundTrip<'de, R>>⟧.same a1 b1 × ⟦<Option<Pair<T>> as RoundTrip<'de, R>>⟧.same a2 b2
    ] };

    ghost alike = { λ human. elim [
      | the_either.Left a1 ↦ λ w h. variant_alike (λ x. ⟦<Either<T> as Serialize>⟧.data_of x human) w (the_either.Left h.0) h.1
          (λ i. newtype_variant_of (codes "Left") (T.alike human a1 h.0 h.2 i))
      | the_either.Right a1 a2 ↦ λ w h. variant_alike
          (λ x. ⟦<Either<T> as Serialize>⟧.data_of x human) w (the_either.Right h.0 h.1) h.2
          (λ i. struct_variant_of (codes "Right") ((codes "by", (⟦<i32 as Serialize>⟧.data_of (h.3 i) human))
          ∷ ((
            codes "pair",
            (option_alike ⟦<Pair<T> as RoundTrip<'de, R>>⟧.same (λ x. ⟦<Pair<T> as Serialize>⟧.data_of x human)
                (λ x3 yx3 h3 i. (sequence_of ((T.alike human x3.0 yx3.0 h3.0 i) ∷ ((T.alike human x3.1 yx3.1 h3.1 i) ∷ [])))) a2 h.1 h.4 i),
          ) ∷ [])))
    ] };

    ghost only = { λ s. let names = codes "Left" ∷ (codes "Right" ∷ [])
        in elim [
          | the_either.Left a1 ↦ λ fits. lowers_then s _ _ (λ m. (w : _) → (⟦<Either<T> as Deserialize<'de, R>>⟧.reads s.human R.lends) m w
              → (b1 : _) × (w ≡ the_either.Left b1) × T.same a1 b1)
              (newtype_variant_row s names (codes "Left") 0 refl (AtPlace 0 (Content (λ j. Only (T.reads s.human R.lends) T.same j a1))) _
              (λ j. Only (T.reads s.human R.lends) T.same j a1) (λ m h. (refl, h)) (T.only s a1 fits))
              (λ m q w r. variant_both names 0 _ _ _ m q r (λ c a b. (b.0, b.1, content_only (T.reads s.human R.lends) T.same a1 b.0 c a b.2)))
          | the_either.Right
              a1 a2 ↦ λ fits. lowers_then s _ _ (λ m. (w : _) → (⟦<Either<T> as Deserialize<'de, R>>⟧.reads s.human R.lends) m w
              → (b1 : _) × (b2 : _) × (w ≡ the_either.Right b1 b2) × ⟦<i32 as RoundTrip<'de, R>>⟧.same a1 b1
              × ⟦<Option<Pair<T>> as RoundTrip<'de, R>>⟧.same a2 b2)
              (struct_variant_row s names (codes "Right") 1 refl
              (AtPlace 1 (Content (OfFields (codes "by" ∷ (codes "pair" ∷ []))
              (Field (λ j. Only (⟦<i32 as Deserialize<'de, R>>⟧.reads s.human R.lends) ⟦<i32 as RoundTrip<'de, R>>⟧.same j a1) ⊥
              (Field (λ j. Only (⟦<Option<Pair<T>> as Deserialize<'de, R>>⟧.reads s.human R.lends) ⟦<Option<Pair<T>> as RoundTrip<'de, R>>⟧.same j a2) ⊥
              NoField))))) (codes "by" ∷ (codes "pair" ∷ [])) _ _ refl (λ m h. (refl, h))
              (fields_cons s (codes "by") _ _ _ (λ j. Only (⟦<i32 as Deserialize<'de, R>>⟧.reads s.human R.lends) ⟦<i32 as RoundTrip<'de, R>>⟧.same j a1) ⊥ _
              (signed_only s (negsuc 2147483647) (pos 2147483647) a1)
              (fields_cons s (codes "pair") _ _ _ (λ j. Only (⟦<Option<Pair<T>> as Deserialize<'de, R>>⟧.reads s.human R.lends)
              ⟦<Option<Pair<T>> as RoundTrip<'de, R>>⟧.same j a2) ⊥ _
              (option_only s _ (⟦<Pair<T> as Deserialize<'de, R>>⟧.reads s.human R.lends) ⟦<Pair<T> as RoundTrip<'de, R>>⟧.same a2
              (option_row s (λ x. ⟦<Pair<T> as Serialize>⟧.data_of x s.human) ⟦<Pair<T> as Serialize>⟧.is_value
              (Only (⟦<Pair<T> as Deserialize<'de, R>>⟧.reads s.human R.lends) ⟦<Pair<T> as RoundTrip<'de, R>>⟧.same) (λ x2. sequence_other s _)
              (λ x1 h1. (lowers_then s _ _ (λ m. (w : _) → (⟦<Pair<T> as Deserialize<'de, R>>⟧.reads s.human R.lends) m w
              → T.same x1.0 w.0 × T.same x1.1 w.1) (sequence_row s _ _
              (rows_cons s _ _ (λ j. Only (T.reads s.human R.lends) T.same j x1.0) _ (T.only s x1.0 h1.0)
              (rows_cons s _ _ (λ j. Only (T.reads s.human R.lends) T.same j x1.1) _ (T.only s x1.1 h1.1) (rows_none s))))
              (λ m q w r. row_both _ _ _ m q r (item_only (T.reads s.human R.lends) T.same x1.0 w.0 _ _ _
              (last_only (T.reads s.human R.lends) T.same x1.1 w.1))))) a2 fits.1)) (fields_none s))))
              (λ m q w r. variant_both names 1 _ _ _ m q r (λ c a b. content_fields (codes "by" ∷ (codes "pair" ∷ [])) _ _ _ c a b.3
              (λ ks i j. let x = field_only (⟦<i32 as Deserialize<'de, R>>⟧.reads s.human R.lends) ⟦<i32 as RoundTrip<'de, R>>⟧.same a1 b.0 _ _ _ _
              (last_field (⟦<Option<Pair<T>> as Deserialize<'de, R>>⟧.reads s.human R.lends) ⟦<Option<Pair<T>> as RoundTrip<'de, R>>⟧.same a2 b.1 _) ks i j
              in (b.0, b.1, b.2, x.0, x.1))))
        ] };
}

impl<T: Serialize> NeverNil for Either<T> {
    ghost never_nil = { λ s. elim [
      | the_either.Left a1 ↦ newtype_variant_other s (codes "Left") _
      | the_either.Right a1 a2 ↦ struct_variant_other s
          (codes "Right") _
    ] };
}

impl<'de, R: ReadSlice<'de>, T: EndsInside<'de, R>> EndsInside<'de, R> for Either<T> {
    ghost ends_inside = { enum_inside _ _ (
      with_content_inside _ (T.ends_inside),
      (
        with_content_inside _ (fields_inside _ _ _ (
          number_inside,
          (
            (option_inside ⟦<Pair<T> as Deserialize<'de, R>>⟧.refuses
                (tuple_inside (part_of T.reads T.refuses ∷ (part_of T.reads T.refuses ∷ [])) (T.ends_inside, (T.ends_inside, tt)))),
            tt,
          ),
        )),
        tt,
      ),
    ) };
}

impl<K: Serialize + Ord> Serialize for Sorted<K> {
    ghost data_of = { λ v human. structure_of ((codes "dogs", ⟦<BTreeMap<String, Dog> as Serialize>⟧.data_of v.dogs human)
        ∷ ((codes "counts", ⟦<BTreeMap<K, u64> as Serialize>⟧.data_of v.counts human)
        ∷ ((codes "numbers", ⟦<BTreeSet<i16> as Serialize>⟧.data_of v.numbers human) ∷ []))) };

    ghost is_value = { λ v. ⟦<BTreeMap<String, Dog> as Serialize>⟧.is_value v.dogs × ⟦<BTreeMap<K, u64> as Serialize>⟧.is_value v.counts
        × ⟦<BTreeSet<i16> as Serialize>⟧.is_value v.numbers };

    ghost takes_memory = { λ s. one_of (⟦<BTreeMap<String, Dog> as Serialize>⟧.takes_memory s
        ∷ (⟦<BTreeMap<K, u64> as Serialize>⟧.takes_memory s ∷ (⟦<BTreeSet<i16> as Serialize>⟧.takes_memory s ∷ []))) };

    ghost refuses = { λ v. OfParts ⊥ (⟦<BTreeMap<String, Dog> as Serialize>⟧.refuses v.dogs
        ∷ (⟦<BTreeMap<K, u64> as Serialize>⟧.refuses v.counts ∷ (⟦<BTreeSet<i16> as Serialize>⟧.refuses v.numbers ∷ []))) };

    fn serialize<W: Sink, C: SerializerConfig>(
        &self,
        se: &mut Serializer<W, C>,
    ) -> Result<(), rmp_encode::Error> {
        let parts = rmp_encode::Three {
            first: &self.dogs,
            second: &self.counts,
            third: &self.numbers,
        };
        se.serialize_fields("Sorted", &["dogs", "counts", "numbers"], &parts)
    }

    #[tactic(auto, using(rmp_encode::proofs::Fields::structure_no_byte))]
    fn as_u8(&self, _human: bool) -> Option<u8> {
        None
    }
}

impl<'de, R: ReadSlice<'de>, K: Deserialize<'de, R> + Ord> Deserialize<'de, R> for Sorted<K> {
    ghost reads = { λ human lends m v. OfFields (codes "dogs" ∷ (codes "counts" ∷ (codes "numbers" ∷ [])))
        (Field (λ j. ⟦<BTreeMap<String, Dog> as Deserialize<'de, R>>⟧.reads human lends j v.dogs)
        (Absent ⟦<BTreeMap<String, Dog> as Deserialize<'de, R>>⟧.absent v.dogs)
        (Field (λ j. ⟦<BTreeMap<K, u64> as Deserialize<'de, R>>⟧.reads human lends j v.counts)
        (Absent ⟦<BTreeMap<K, u64> as Deserialize<'de, R>>⟧.absent v.counts)
        (Field (λ j. ⟦<BTreeSet<i16> as Deserialize<'de, R>>⟧.reads human lends j v.numbers)
        (Absent ⟦<BTreeSet<i16> as Deserialize<'de, R>>⟧.absent v.numbers) NoField))) m };

    ghost absent = { None };

    ghost refuses = { RefusesFields (codes "dogs" ∷ (codes "counts" ∷ (codes "numbers" ∷ [])))
        (is_none ⟦<BTreeMap<String, Dog> as Deserialize<'de, R>>⟧.absent
        ∷ (is_none ⟦<BTreeMap<K, u64> as Deserialize<'de, R>>⟧.absent ∷ (is_none ⟦<BTreeSet<i16> as Deserialize<'de, R>>⟧.absent ∷ [])))
        (part_of ⟦<BTreeMap<String, Dog> as Deserialize<'de, R>>⟧.reads ⟦<BTreeMap<String, Dog> as Deserialize<'de, R>>⟧.refuses
        ∷ (part_of ⟦<BTreeMap<K, u64> as Deserialize<'de, R>>⟧.reads ⟦<BTreeMap<K, u64> as Deserialize<'de, R>>⟧.refuses
        ∷ (part_of ⟦<BTreeSet<i16> as Deserialize<'de, R>>⟧.reads ⟦<BTreeSet<i16> as Deserialize<'de, R>>⟧.refuses ∷ []))) };

    #[inline(always)]
    fn deserialize<C: SerializerConfig>(
        de: &mut Deserializer<R, C>,
    ) -> Result<Sorted<K>, rmp_decode::Error> {
        let read: Result<
            (
                BTreeMap<String, Dog>,
                (BTreeMap<K, u64>, (BTreeSet<i16>, ())),
            ),
            rmp_decode::Error,
        > = rmp_decode::read_fields_3(de, &["dogs", "counts", "numbers"]);
        match read {
            Ok(parts) => {
                let (dogs, (counts, (numbers, ()))) = parts;
                return Ok(Sorted {
                    dogs,
                    counts,
                    numbers,
                });
            }
            Err(e) => return Err(e),
        }
    }

    fn missing() -> Option<Sorted<K>> {
        None
    }
}

impl<'de, R: ReadSlice<'de>, K: ContentOrd<'de, R> + Ord> RoundTrip<'de, R> for Sorted<K> {
    ghost use Rattle.test_derived.specs.contracts.structs.derived.DogRoundTrip.TheImpl.Laws as dog_rounds;
    ghost use mir.Syntax.{given};

    ghost borrows = { K.borrows };

    ghost has_data = { λ human v. structure_all ((codes "dogs", ⟦<BTreeMap<String, Dog> as Serialize>⟧.data_of v.dogs human)
        ∷ ((codes "counts", ⟦<BTreeMap<K, u64> as Serialize>⟧.data_of v.counts human)
        ∷ ((codes "numbers", ⟦<BTreeSet<i16> as Serialize>⟧.data_of v.numbers human) ∷ []))) (
          (mapping_some (λ x. ⟦<String as Serialize>⟧.data_of x human) (λ x. ⟦<Dog as Serialize>⟧.data_of x human) (λ x1. refl)
              (λ x1. (dog_rounds.has_data-law R.row R.ReadSlice.own (given 0) R.Source (given 0) human x1)) v.dogs.entries),
          (
            (mapping_some (λ x. K.data_of x human) (λ x. ⟦<u64 as Serialize>⟧.data_of x human) (λ x3. (K.has_data human x3)) (λ x3. refl) v.counts.entries),
            ((sequence_some _ (each_some (λ x. ⟦<i16 as Serialize>⟧.data_of x human) (λ x4. refl) v.numbers.keys)), tt),
          ),
        ) };

    ghost round = { λ lent s v fits. structure_row s (codes "dogs" ∷ (codes "counts" ∷ (codes "numbers" ∷ []))) _ _ refl
        (fields_cons s (codes "dogs") _ _ _ (λ j. ⟦<BTreeMap<String, Dog> as Deserialize<'de, R>>⟧.reads s.human R.lends j v.dogs)
        (Absent ⟦<BTreeMap<String, Dog> as Deserialize<'de, R>>⟧.absent v.dogs) _
        (map_row s (λ x. ⟦<String as Serialize>⟧.data_of x s.human) (λ x. ⟦<Dog as Serialize>⟧.data_of x s.human) ⟦<String as Serialize>⟧.is_value
        ⟦<Dog as Serialize>⟧.is_value (⟦<String as Deserialize<'de, R>>⟧.reads s.human R.lends) (⟦<Dog as Deserialize<'de, R>>⟧.reads s.human R.lends)
        (λ x5 h5. (string_row s (string_bytes x5))) (λ x6 h6. (dog_rounds.round-law R.row R.ReadSlice.own (given 0) R.Source (given 0) (λ e. cc) s x6 h6))
        (on_total (λ x. string_bytes x) nat_list_cmp_total) v.dogs.entries fits.0.1 fits.0.0)
        (fields_cons s (codes "counts") _ _ _ (λ j. ⟦<BTreeMap<K, u64> as Deserialize<'de, R>>⟧.reads s.human R.lends j v.counts)
        (Absent ⟦<BTreeMap<K, u64> as Deserialize<'de, R>>⟧.absent v.counts) _
        (map_row s (λ x. K.data_of x s.human) (λ x. ⟦<u64 as Serialize>⟧.data_of x s.human) K.is_value ⟦<u64 as Serialize>⟧.is_value
        (K.reads s.human R.lends) (⟦<u64 as Deserialize<'de, R>>⟧.reads s.human R.lends) (λ x7 h7. (K.round lent s x7 h7))
        (λ x8 h8. (unsigned_row_64 s x8 h8)) K.total v.counts.entries fits.1.1 fits.1.0)
        (fields_cons s (codes "numbers") _ _ _ (λ j. ⟦<BTreeSet<i16> as Deserialize<'de, R>>⟧.reads s.human R.lends j v.numbers)
        (Absent ⟦<BTreeSet<i16> as Deserialize<'de, R>>⟧.absent v.numbers) _
        (set_row s (λ x. ⟦<i16 as Serialize>⟧.data_of x s.human) ⟦<i16 as Serialize>⟧.is_value (⟦<i16 as Deserialize<'de, R>>⟧.reads s.human R.lends)
        (λ x9 h9. (signed_row_16 s x9 h9)) ⟦<i16 as Ord>⟧.cmp v.numbers.keys fits.2.1 fits.2.0) (fields_none s)))) };

    ghost same = { λ v w. ⟦<BTreeMap<String, Dog> as RoundTrip<'de, R>>⟧.same v.dogs w.dogs
        × ⟦<BTreeMap<K, u64> as RoundTrip<'de, R>>⟧.same v.counts w.counts × ⟦<BTreeSet<i16> as RoundTrip<'de, R>>⟧.same v.numbers w.numbers };

    ghost alike = { λ human v w h i. structure_of ((
      codes "dogs",
      (mapping_alike ⟦<String as RoundTrip<'de, R>>⟧.same (λ x. ⟦<String as Serialize>⟧.data_of x human)
          (λ x6 yx6 h6 i. (text_alike (string_bytes x6) (string_bytes yx6) h6 i)) ⟦<Dog as RoundTrip<'de, R>>⟧.same
          (λ x. ⟦<Dog as Serialize>⟧.data_of x human) (λ x7 yx7 h7 i.
          (dog_rounds.alike-law R.row R.ReadSlice.own (given 0) R.Source (given 0) human x7 yx7 h7 i)) v.dogs.entries w.dogs.entries h.0 i),
    )
        ∷ ((
          codes "counts",
          (mapping_alike K.same (λ x. K.data_of x human) (λ x8 yx8 h8 i. (K.alike human x8 yx8 h8 i)) ⟦<u64 as RoundTrip<'de, R>>⟧.same
              (λ x. ⟦<u64 as Serialize>⟧.data_of x human) (λ x9 yx9 h9 i. (⟦<u64 as Serialize>⟧.data_of (h9 i) human)) v.counts.entries w.counts.entries h.1 i),
        )
        ∷ ((
          codes "numbers",
          (sequence_alike ⟦<i16 as RoundTrip<'de, R>>⟧.same (λ x. ⟦<i16 as Serialize>⟧.data_of x human)
              (λ x10 yx10 h10 i. (⟦<i16 as Serialize>⟧.data_of (h10 i) human)) v.numbers.keys w.numbers.keys h.2 i),
        ) ∷ []))) };

    ghost only = { λ s v fits. lowers_then s _ _ (λ m. (w : _) → (⟦<Sorted<K> as Deserialize<'de, R>>⟧.reads s.human R.lends) m w
        → ⟦<BTreeMap<String, Dog> as RoundTrip<'de, R>>⟧.same v.dogs w.dogs × ⟦<BTreeMap<K, u64> as RoundTrip<'de, R>>⟧.same v.counts w.counts
        × ⟦<BTreeSet<i16> as RoundTrip<'de, R>>⟧.same v.numbers w.numbers)
        (structure_row s (codes "dogs" ∷ (codes "counts" ∷ (codes "numbers" ∷ []))) _ _ refl
        (fields_cons s (codes "dogs") _ _ _ (λ j. Only (⟦<BTreeMap<String, Dog> as Deserialize<'de, R>>⟧.reads s.human R.lends)
        ⟦<BTreeMap<String, Dog> as RoundTrip<'de, R>>⟧.same j v.dogs) ⊥ _
        (entries_only (⟦<String as Deserialize<'de, R>>⟧.reads s.human R.lends) (⟦<Dog as Deserialize<'de, R>>⟧.reads s.human R.lends)
        ⟦<String as RoundTrip<'de, R>>⟧.same ⟦<Dog as RoundTrip<'de, R>>⟧.same s _ (λ w. w.entries) {cmp = ⟦<String as Ord>⟧.cmp}
        (on_total (λ x. string_bytes x) nat_list_cmp_total) (λ x y e. tied (slice_cmp nat_cmp) nat_list_cmp_total (string_bytes x) (string_bytes y) e)
        v.dogs.entries fits.0.1 (pairs_row s (λ x. ⟦<String as Serialize>⟧.data_of x s.human) (λ x. ⟦<Dog as Serialize>⟧.data_of x s.human)
        ⟦<String as Serialize>⟧.is_value ⟦<Dog as Serialize>⟧.is_value
        (Only (⟦<String as Deserialize<'de, R>>⟧.reads s.human R.lends) ⟦<String as RoundTrip<'de, R>>⟧.same)
        (Only (⟦<Dog as Deserialize<'de, R>>⟧.reads s.human R.lends) ⟦<Dog as RoundTrip<'de, R>>⟧.same)
        (λ x1 h1. (string_only s (λ w. string_bytes w) (string_bytes x1)))
        (λ x2 h2. (dog_rounds.only-law R.row R.ReadSlice.own (given 0) R.Source (given 0) s x2 h2)) v.dogs.entries fits.0.0))
        (fields_cons s (codes "counts") _ _ _ (λ j. Only (⟦<BTreeMap<K, u64> as Deserialize<'de, R>>⟧.reads s.human R.lends)
        ⟦<BTreeMap<K, u64> as RoundTrip<'de, R>>⟧.same j v.counts) ⊥ _
        (entries_only (K.reads s.human R.lends) (⟦<u64 as Deserialize<'de, R>>⟧.reads s.human R.lends) K.same ⟦<u64 as RoundTrip<'de, R>>⟧.same s _
        (λ w. w.entries) {cmp = K.cmp} K.total K.equal v.counts.entries fits.1.1
        (pairs_row s (λ x. K.data_of x s.human) (λ x. ⟦<u64 as Serialize>⟧.data_of x s.human) K.is_value ⟦<u64 as Serialize>⟧.is_value
        (Only (K.reads s.human R.lends) K.same) (Only (⟦<u64 as Deserialize<'de, R>>⟧.reads s.human R.lends) ⟦<u64 as RoundTrip<'de, R>>⟧.same)
        (λ x3 h3. (K.only s x3 h3)) (λ x4 h4. (unsigned_only s 18446744073709551615 x4)) v.counts.entries fits.1.0))
        (fields_cons s (codes "numbers") _ _ _ (λ j. Only (⟦<BTreeSet<i16> as Deserialize<'de, R>>⟧.reads s.human R.lends)
        ⟦<BTreeSet<i16> as RoundTrip<'de, R>>⟧.same j v.numbers) ⊥ _
        (set_only s _ (λ w. w.keys) {cmp = ⟦<i16 as Ord>⟧.cmp} (Prim.search (comparing, rules)) (⟦<i16 as Deserialize<'de, R>>⟧.reads s.human R.lends)
        ⟦<i16 as RoundTrip<'de, R>>⟧.same (λ x y e. tied ⟦<i16 as Ord>⟧.cmp (Prim.search (comparing, rules)) x y e) v.numbers.keys fits.2.1
        (sequence_row s _ (λ ms. ReadsEach (Only (⟦<i16 as Deserialize<'de, R>>⟧.reads s.human R.lends) ⟦<i16 as RoundTrip<'de, R>>⟧.same) ms
        v.numbers.keys) (each_row s (λ x. ⟦<i16 as Serialize>⟧.data_of x s.human) ⟦<i16 as Serialize>⟧.is_value
        (Only (⟦<i16 as Deserialize<'de, R>>⟧.reads s.human R.lends) ⟦<i16 as RoundTrip<'de, R>>⟧.same)
        (λ x5 h5. (signed_only s (negsuc 32767) (pos 32767) x5)) v.numbers.keys fits.2.0))) (fields_none s)))))
        (λ m q w r. fields_both (codes "dogs" ∷ (codes "counts" ∷ (codes "numbers" ∷ []))) _ _ _ m q r
        (λ ks i j. let x = field_only (⟦<BTreeMap<String, Dog> as Deserialize<'de, R>>⟧.reads s.human R.lends)
        ⟦<BTreeMap<String, Dog> as RoundTrip<'de, R>>⟧.same v.dogs w.dogs _ _ _ _
        (field_only (⟦<BTreeMap<K, u64> as Deserialize<'de, R>>⟧.reads s.human R.lends) ⟦<BTreeMap<K, u64> as RoundTrip<'de, R>>⟧.same v.counts w.counts _ _
        _ _ (last_field (⟦<BTreeSet<i16> as Deserialize<'de, R>>⟧.reads s.human R.lends) ⟦<BTreeSet<i16> as RoundTrip<'de, R>>⟧.same v.numbers w.numbers _))
        ks i j in (x.0, x.1.0, x.1.1))) };
}

impl<K: Serialize + Ord> NeverNil for Sorted<K> {
    ghost never_nil = { λ s v. structure_other s _ };
}

impl<'de, R: ReadSlice<'de>, K: EndsInside<'de, R> + Ord> EndsInside<'de, R> for Sorted<K> {
    ghost use Rattle.test_derived.specs.contracts.structs.derived.DogEndsInside.TheImpl.Laws as dog_ends;
    ghost use mir.Syntax.{given};

    ghost ends_inside = { fields_inside _ _ _ (
      (map_inside ⟦<String as Deserialize<'de, R>>⟧.reads ⟦<Dog as Deserialize<'de, R>>⟧.reads
          ⟦<String as Deserialize<'de, R>>⟧.refuses ⟦<Dog as Deserialize<'de, R>>⟧.refuses string_inside
          (dog_ends.ends_inside-law R.row R.ReadSlice.own (given 0) R.Source (given 0))),
      (
        (map_inside K.reads ⟦<u64 as Deserialize<'de, R>>⟧.reads K.refuses ⟦<u64 as Deserialize<'de, R>>⟧.refuses K.ends_inside number_inside),
        ((each_inside ⟦<i16 as Deserialize<'de, R>>⟧.reads ⟦<i16 as Deserialize<'de, R>>⟧.refuses number_inside), tt),
      ),
    ) };
}

impl Serialize for Kennel {
    ghost data_of = { λ v human. structure_of ((codes "dogs", ⟦<Vec<Dog> as Serialize>⟧.data_of v.dogs human)
        ∷ ((codes "four", ⟦<Box<Four> as Serialize>⟧.data_of v.four human)
        ∷ ((codes "pair", ⟦<Pair<Opt> as Serialize>⟧.data_of v.pair human)
        ∷ ((codes "either", ⟦<Option<Either<bool>> as Serialize>⟧.data_of v.either human) ∷ [])))) };

    ghost is_value = { λ v. ⟦<Vec<Dog> as Serialize>⟧.is_value v.dogs × ⟦<Box<Four> as Serialize>⟧.is_value v.four
        × ⟦<Pair<Opt> as Serialize>⟧.is_value v.pair × ⟦<Option<Either<bool>> as Serialize>⟧.is_value v.either };

    ghost takes_memory = { λ s. one_of (⟦<Vec<Dog> as Serialize>⟧.takes_memory s
        ∷ (⟦<Box<Four> as Serialize>⟧.takes_memory s ∷ (⟦<Pair<Opt> as Serialize>⟧.takes_memory s
        ∷ (⟦<Option<Either<bool>> as Serialize>⟧.takes_memory s ∷ [])))) };

    ghost refuses = { λ v. OfParts ⊥ (⟦<Vec<Dog> as Serialize>⟧.refuses v.dogs
        ∷ (⟦<Box<Four> as Serialize>⟧.refuses v.four ∷ (⟦<Pair<Opt> as Serialize>⟧.refuses v.pair
        ∷ (⟦<Option<Either<bool>> as Serialize>⟧.refuses v.either ∷ [])))) };

    fn serialize<W: Sink, C: SerializerConfig>(
        &self,
        se: &mut Serializer<W, C>,
    ) -> Result<(), rmp_encode::Error> {
        let parts = rmp_encode::Four {
            first: &self.dogs,
            second: &self.four,
            third: &self.pair,
            fourth: &self.either,
        };
        se.serialize_fields("Kennel", &["dogs", "four", "pair", "either"], &parts)
    }

    #[tactic(auto, using(rmp_encode::proofs::Fields::structure_no_byte))]
    fn as_u8(&self, _human: bool) -> Option<u8> {
        None
    }
}

impl<'de, R: ReadSlice<'de>> Deserialize<'de, R> for Kennel {
    ghost reads = { λ human lends m v. OfFields (codes "dogs" ∷ (codes "four" ∷ (codes "pair" ∷ (codes "either" ∷ []))))
        (Field (λ j. ⟦<Vec<Dog> as Deserialize<'de, R>>⟧.reads human lends j v.dogs) (Absent ⟦<Vec<Dog> as Deserialize<'de, R>>⟧.absent v.dogs)
        (Field (λ j. ⟦<Box<Four> as Deserialize<'de, R>>⟧.reads human lends j v.four) (Absent ⟦<Box<Four> as Deserialize<'de, R>>⟧.absent v.four)
        (Field (λ j. ⟦<Pair<Opt> as Deserialize<'de, R>>⟧.reads human lends j v.pair) (Absent ⟦<Pair<Opt> as Deserialize<'de, R>>⟧.absent v.pair)
        (Field (λ j. ⟦<Option<Either<bool>> as Deserialize<'de, R>>⟧.reads human lends j v.either)
        (Absent ⟦<Option<Either<bool>> as Deserialize<'de, R>>⟧.absent v.either) NoField)))) m };

    ghost absent = { None };

    ghost refuses = { RefusesFields (codes "dogs" ∷ (codes "four" ∷ (codes "pair" ∷ (codes "either" ∷ []))))
        (is_none ⟦<Vec<Dog> as Deserialize<'de, R>>⟧.absent
        ∷ (is_none ⟦<Box<Four> as Deserialize<'de, R>>⟧.absent
        ∷ (is_none ⟦<Pair<Opt> as Deserialize<'de, R>>⟧.absent ∷ (is_none ⟦<Option<Either<bool>> as Deserialize<'de, R>>⟧.absent ∷ []))))
        (part_of ⟦<Vec<Dog> as Deserialize<'de, R>>⟧.reads ⟦<Vec<Dog> as Deserialize<'de, R>>⟧.refuses
        ∷ (part_of ⟦<Box<Four> as Deserialize<'de, R>>⟧.reads ⟦<Box<Four> as Deserialize<'de, R>>⟧.refuses
        ∷ (part_of ⟦<Pair<Opt> as Deserialize<'de, R>>⟧.reads ⟦<Pair<Opt> as Deserialize<'de, R>>⟧.refuses
        ∷ (part_of ⟦<Option<Either<bool>> as Deserialize<'de, R>>⟧.reads ⟦<Option<Either<bool>> as Deserialize<'de, R>>⟧.refuses ∷ [])))) };

    #[inline(always)]
    fn deserialize<C: SerializerConfig>(
        de: &mut Deserializer<R, C>,
    ) -> Result<Kennel, rmp_decode::Error> {
        let read: Result<
            (Vec<Dog>, Box<Four>, Pair<Opt>, Option<Either<bool>>, ()),
            rmp_decode::Error,
        > = rmp_decode::read_fields_4(de, &["dogs", "four", "pair", "either"]);
        match read {
            Ok(parts) => {
                let (dogs, four, pair, either, ()) = parts;
                return Ok(Kennel {
                    dogs,
                    four,
                    pair,
                    either,
                });
            }
            Err(e) => return Err(e),
        }
    }

    fn missing() -> Option<Kennel> {
        None
    }
}

impl<'de, R: ReadSlice<'de>> RoundTrip<'de, R> for Kennel {
    ghost use Rattle.test_derived.specs.contracts.structs.derived.DogRoundTrip.TheImpl.Laws as dog_rounds;
    ghost use Rattle.test_derived.specs.contracts.enums.derived.FourRoundTrip.TheImpl.Laws as four_rounds;
    ghost use Rattle.test_derived.specs.contracts.structs.derived.OptRoundTrip.TheImpl.Laws as opt_rounds;
    ghost use mir.Syntax.{given};

    ghost has_data = { λ human v. structure_all ((codes "dogs", ⟦<Vec<Dog> as Serialize>⟧.data_of v.dogs human)
        ∷ ((codes "four", ⟦<Box<Four> as Serialize>⟧.data_of v.four human)
        ∷ ((codes "pair", ⟦<Pair<Opt> as Serialize>⟧.data_of v.pair human)
        ∷ ((codes "either", ⟦<Option<Either<bool>> as Serialize>⟧.data_of v.either human) ∷ [])))) (
          (slice_some _ (each_some (λ x. ⟦<Dog as Serialize>⟧.data_of x human)
              (λ x1. (dog_rounds.has_data-law R.row R.ReadSlice.own (given 0) R.Source (given 0) human x1)) v.dogs.items)),
          (
            (four_rounds.has_data-law R.row R.ReadSlice.own (given 0) R.Source (given 0) human v.four.value),
            (
              (sequence_all (⟦<Opt as Serialize>⟧.data_of v.pair.0 human ∷ (⟦<Opt as Serialize>⟧.data_of v.pair.1 human ∷ [])) (
                (opt_rounds.has_data-law R.row R.ReadSlice.own (given 0) R.Source (given 0) human v.pair.0),
                ((opt_rounds.has_data-law R.row R.ReadSlice.own (given 0) R.Source (given 0) human v.pair.1), tt),
              )),
              (
                (option_some (λ x. ⟦<Either<bool> as Serialize>⟧.data_of x human)
                    (λ x7. (let law : (x : _) → IsSome (⟦<Either<bool> as Serialize>⟧.data_of x human) = elim [
                      | the_either.Left a1 ↦ newtype_variant_some (codes "Left") (⟦<bool as Serialize>⟧.data_of a1 human) refl
                      | the_either.Right a1 a2 ↦
                          struct_variant_all (codes "Right") ((codes "by", ⟦<i32 as Serialize>⟧.data_of a1 human)
                          ∷ ((codes "pair", ⟦<Option<Pair<bool>> as Serialize>⟧.data_of a2 human) ∷ [])) (
                            refl,
                            (
                              (option_some (λ x. ⟦<Pair<bool> as Serialize>⟧.data_of x human)
                                  (λ x9. (sequence_all (⟦<bool as Serialize>⟧.data_of x9.0 human ∷ (⟦<bool as Serialize>⟧.data_of x9.1 human ∷ [])) (refl, (refl, tt)))) a2),
                              tt,
                            ),
                          )
                    ]
                    in law x7)) v.either),
                tt,
              ),
            ),
          ),
        ) };

    ghost round = { λ lent s v fits. structure_row s (codes "dogs" ∷ (codes "four" ∷ (codes "pair" ∷ (codes "either" ∷ [])))) _ _ refl
        (fields_cons s (codes "dogs") _ _ _ (λ j. ⟦<Vec<Dog> as Deserialize<'de, R>>⟧.reads s.human R.lends j v.dogs)
        (Absent ⟦<Vec<Dog> as Deserialize<'de, R>>⟧.absent v.dogs) _
        (slice_row s _ (λ ms. ReadsEach (⟦<Dog as Deserialize<'de, R>>⟧.reads s.human R.lends) ms v.dogs.items)
        (each_row s (λ x. ⟦<Dog as Serialize>⟧.data_of x s.human) ⟦<Dog as Serialize>⟧.is_value (⟦<Dog as Deserialize<'de, R>>⟧.reads s.human R.lends)
        (λ x11 h11. (dog_rounds.round-law R.row R.ReadSlice.own (given 0) R.Source (given 0) (λ e. cc) s x11 h11)) v.dogs.items fits.0))
        (fields_cons s (codes "four") _ _ _ (λ j. ⟦<Box<Four> as Deserialize<'de, R>>⟧.reads s.human R.lends j v.four)
        (Absent ⟦<Box<Four> as Deserialize<'de, R>>⟧.absent v.four) _
        (four_rounds.round-law R.row R.ReadSlice.own (given 0) R.Source (given 0) (λ e. cc) s v.four.value fits.1)
        (fields_cons s (codes "pair") _ _ _ (λ j. ⟦<Pair<Opt> as Deserialize<'de, R>>⟧.reads s.human R.lends j v.pair)
        (Absent ⟦<Pair<Opt> as Deserialize<'de, R>>⟧.absent v.pair) _
        (sequence_row s _ _ (rows_cons s _ _ (λ j. ⟦<Opt as Deserialize<'de, R>>⟧.reads s.human R.lends j v.pair.0) _
        (opt_rounds.round-law R.row R.ReadSlice.own (given 0) R.Source (given 0) (λ e. cc) s v.pair.0 fits.2.0)
        (rows_cons s _ _ (λ j. ⟦<Opt as Deserialize<'de, R>>⟧.reads s.human R.lends j v.pair.1) _
        (opt_rounds.round-law R.row R.ReadSlice.own (given 0) R.Source (given 0) (λ e. cc) s v.pair.1 fits.2.1) (rows_none s))))
        (fields_cons s (codes "either") _ _ _ (λ j. ⟦<Option<Either<bool>> as Deserialize<'de, R>>⟧.reads s.human R.lends j v.either)
        (Absent ⟦<Option<Either<bool>> as Deserialize<'de, R>>⟧.absent v.either) _
        (option_row s (λ x. ⟦<Either<bool> as Serialize>⟧.data_of x s.human) ⟦<Either<bool> as Serialize>⟧.is_value
        (⟦<Either<bool> as Deserialize<'de, R>>⟧.reads s.human R.lends)
        (λ x15. (let law : (x : _) → tree_of s (⟦<Either<bool> as Serialize>⟧.data_of x s.human) ≢ Some nil = elim
        [ the_either.Left a1 ↦ newtype_variant_other s (codes "Left") _ | the_either.Right a1 a2 ↦ struct_variant_other s (codes "Right") _ ] in law x15))
        (λ x12 h12. (let law : (x : _) → ⟦<Either<bool> as Serialize>⟧.is_value x
        → LowersTo s (⟦<Either<bool> as Serialize>⟧.data_of x s.human)
        (λ m. ⟦<Either<bool> as Deserialize<'de, R>>⟧.reads s.human R.lends m x) = let names = codes "Left" ∷ (codes "Right" ∷ [])
        in elim [
          | the_either.Left a1 ↦ λ fits. newtype_variant_row s names (codes "Left") 0 refl _ _
              (λ j. ⟦<bool as Deserialize<'de, R>>⟧.reads s.human R.lends j a1) (λ m h. (a1, refl, h)) (truth_row s a1)
          | the_either.Right a1 a2 ↦ λ fits.
              struct_variant_row s names (codes "Right") 1 refl _ (codes "by" ∷ (codes "pair" ∷ [])) _ _ refl (λ m h. (a1, a2, refl, h))
              (fields_cons s (codes "by") _ _ _ (λ j. ⟦<i32 as Deserialize<'de, R>>⟧.reads s.human R.lends j a1) (Absent ⟦<i32 as Deserialize<'de, R>>⟧.absent a1)
              _ (signed_row_32 s a1 fits.0) (fields_cons s (codes "pair") _ _ _ (λ j. ⟦<Option<Pair<bool>> as Deserialize<'de, R>>⟧.reads s.human R.lends j a2)
              (Absent ⟦<Option<Pair<bool>> as Deserialize<'de, R>>⟧.absent a2) _
              (option_row s (λ x. ⟦<Pair<bool> as Serialize>⟧.data_of x s.human) ⟦<Pair<bool> as Serialize>⟧.is_value
              (⟦<Pair<bool> as Deserialize<'de, R>>⟧.reads s.human R.lends) (λ x14. sequence_other s _)
              (λ x13 h13. (sequence_row s _ _ (rows_cons s _ _ (λ j. ⟦<bool as Deserialize<'de, R>>⟧.reads s.human R.lends j x13.0) _ (truth_row s x13.0)
              (rows_cons s _ _ (λ j. ⟦<bool as Deserialize<'de, R>>⟧.reads s.human R.lends j x13.1) _ (truth_row s x13.1) (rows_none s))))) a2 fits.1)
              (fields_none s)))
        ] in law x12 h12)) v.either fits.3) (fields_none s))))) };

    ghost same = { λ v w. ⟦<Vec<Dog> as RoundTrip<'de, R>>⟧.same v.dogs w.dogs × ⟦<Box<Four> as RoundTrip<'de, R>>⟧.same v.four w.four
        × ⟦<Pair<Opt> as RoundTrip<'de, R>>⟧.same v.pair w.pair × ⟦<Option<Either<bool>> as RoundTrip<'de, R>>⟧.same v.either w.either };

    ghost alike = { λ human v w h i. structure_of ((
      codes "dogs",
      (slice_alike ⟦<Dog as RoundTrip<'de, R>>⟧.same (λ x. ⟦<Dog as Serialize>⟧.data_of x human)
          (λ x6 yx6 h6 i. (dog_rounds.alike-law R.row R.ReadSlice.own (given 0) R.Source (given 0) human x6 yx6 h6 i)) v.dogs.items w.dogs.items h.0 i),
    )
        ∷ ((codes "four", (four_rounds.alike-law R.row R.ReadSlice.own (given 0) R.Source (given 0) human v.four.value w.four.value h.1 i))
        ∷ ((
          codes "pair",
          (sequence_of ((opt_rounds.alike-law R.row R.ReadSlice.own (given 0) R.Source (given 0) human v.pair.0 w.pair.0 h.2.0 i)
              ∷ ((opt_rounds.alike-law R.row R.ReadSlice.own (given 0) R.Source (given 0) human v.pair.1 w.pair.1 h.2.1 i) ∷ []))),
        )
        ∷ ((
          codes "either",
          (option_alike ⟦<Either<bool> as RoundTrip<'de, R>>⟧.same (λ x. ⟦<Either<bool> as Serialize>⟧.data_of x human)
              (λ x7 yx7 h7 i. (let law : (x y : _) → ⟦<Either<bool> as RoundTrip<'de, R>>⟧.same x y
              → ⟦<Either<bool> as Serialize>⟧.data_of x human ≡ ⟦<Either<bool> as Serialize>⟧.data_of y human = elim [
                | the_either.Left a1 ↦ λ w h. variant_alike (λ x. ⟦<Either<bool> as Serialize>⟧.data_of x human) w (the_either.Left h.0) h.1
                    (λ i. newtype_variant_of (codes "Left") (⟦<bool as Serialize>⟧.data_of (h.2 i) human))
                | the_either.Right a1 a2 ↦ λ w h. variant_alike
                    (λ x. ⟦<Either<bool> as Serialize>⟧.data_of x human) w (the_either.Right h.0 h.1) h.2
                    (λ i. struct_variant_of (codes "Right") ((codes "by", (⟦<i32 as Serialize>⟧.data_of (h.3 i) human))
                    ∷ ((
                      codes "pair",
                      (option_alike ⟦<Pair<bool> as RoundTrip<'de, R>>⟧.same (λ x. ⟦<Pair<bool> as Serialize>⟧.data_of x human)
                          (λ x8 yx8 h8 i. (sequence_of ((⟦<bool as Serialize>⟧.data_of (h8.0 i) human) ∷ ((⟦<bool as Serialize>⟧.data_of (h8.1 i) human) ∷ [])))) a2 h.1 h.4
                          i),
                    ) ∷ [])))
              ] in law x7 yx7 h7 i)) v.either w.either h.3 i),
        ) ∷ [])))) };

    ghost only = { λ s v fits. lowers_then s _ _ (λ m. (w : _) → (⟦<Kennel as Deserialize<'de, R>>⟧.reads s.human R.lends) m w
        → ⟦<Vec<Dog> as RoundTrip<'de, R>>⟧.same v.dogs w.dogs × ⟦<Box<Four> as RoundTrip<'de, R>>⟧.same v.four w.four
        × ⟦<Pair<Opt> as RoundTrip<'de, R>>⟧.same v.pair w.pair × ⟦<Option<Either<bool>> as RoundTrip<'de, R>>⟧.same v.either w.either)
        (structure_row s (codes "dogs" ∷ (codes "four" ∷ (codes "pair" ∷ (codes "either" ∷ [])))) _ _ refl
        (fields_cons s (codes "dogs") _ _ _ (λ j. Only (⟦<Vec<Dog> as Deserialize<'de, R>>⟧.reads s.human R.lends) ⟦<Vec<Dog> as RoundTrip<'de, R>>⟧.same j
        v.dogs) ⊥ _ (list_only s _ (λ w. w.items) (⟦<Dog as Deserialize<'de, R>>⟧.reads s.human R.lends) ⟦<Dog as RoundTrip<'de, R>>⟧.same v.dogs.items
        (slice_row s _ (λ ms. ReadsEach (Only (⟦<Dog as Deserialize<'de, R>>⟧.reads s.human R.lends) ⟦<Dog as RoundTrip<'de, R>>⟧.same) ms v.dogs.items)
        (each_row s (λ x. ⟦<Dog as Serialize>⟧.data_of x s.human) ⟦<Dog as Serialize>⟧.is_value
        (Only (⟦<Dog as Deserialize<'de, R>>⟧.reads s.human R.lends) ⟦<Dog as RoundTrip<'de, R>>⟧.same)
        (λ x1 h1. (dog_rounds.only-law R.row R.ReadSlice.own (given 0) R.Source (given 0) s x1 h1)) v.dogs.items fits.0)))
        (fields_cons s (codes "four") _ _ _ (λ j. Only (⟦<Box<Four> as Deserialize<'de, R>>⟧.reads s.human R.lends) ⟦<Box<Four> as RoundTrip<'de, R>>⟧.same
        j v.four) ⊥ _ (lowers_then s (⟦<Four as Serialize>⟧.data_of v.four.value s.human)
        (λ j. Only (⟦<Four as Deserialize<'de, R>>⟧.reads s.human R.lends) ⟦<Four as RoundTrip<'de, R>>⟧.same j v.four.value)
        (λ j. Only (⟦<Box<Four> as Deserialize<'de, R>>⟧.reads s.human R.lends) ⟦<Box<Four> as RoundTrip<'de, R>>⟧.same j v.four)
        (four_rounds.only-law R.row R.ReadSlice.own (given 0) R.Source (given 0) s v.four.value fits.1) (λ m q w r. q w.value r))
        (fields_cons s (codes "pair") _ _ _ (λ j. Only (⟦<Pair<Opt> as Deserialize<'de, R>>⟧.reads s.human R.lends) ⟦<Pair<Opt> as RoundTrip<'de, R>>⟧.same
        j v.pair) ⊥ _ (lowers_then s _ _ (λ m. (w : _) → (⟦<Pair<Opt> as Deserialize<'de, R>>⟧.reads s.human R.lends) m w
        → ⟦<Opt as RoundTrip<'de, R>>⟧.same v.pair.0 w.0 × ⟦<Opt as RoundTrip<'de, R>>⟧.same v.pair.1 w.1)
        (sequence_row s _ _ (rows_cons s _ _ (λ j. Only (⟦<Opt as Deserialize<'de, R>>⟧.reads s.human R.lends) ⟦<Opt as RoundTrip<'de, R>>⟧.same j v.pair.0)
        _ (opt_rounds.only-law R.row R.ReadSlice.own (given 0) R.Source (given 0) s v.pair.0 fits.2.0)
        (rows_cons s _ _ (λ j. Only (⟦<Opt as Deserialize<'de, R>>⟧.reads s.human R.lends) ⟦<Opt as RoundTrip<'de, R>>⟧.same j v.pair.1) _
        (opt_rounds.only-law R.row R.ReadSlice.own (given 0) R.Source (given 0) s v.pair.1 fits.2.1) (rows_none s))))
        (λ m q w r. row_both _ _ _ m q r (item_only (⟦<Opt as Deserialize<'de, R>>⟧.reads s.human R.lends) ⟦<Opt as RoundTrip<'de, R>>⟧.same v.pair.0 w.0 _
        _ _ (last_only (⟦<Opt as Deserialize<'de, R>>⟧.reads s.human R.lends) ⟦<Opt as RoundTrip<'de, R>>⟧.same v.pair.1 w.1))))
        (fields_cons s (codes "either") _ _ _ (λ j. Only (⟦<Option<Either<bool>> as Deserialize<'de, R>>⟧.reads s.human R.lends)
        ⟦<Option<Either<bool>> as RoundTrip<'de, R>>⟧.same j v.either) ⊥ _
        (option_only s _ (⟦<Either<bool> as Deserialize<'de, R>>⟧.reads s.human R.lends) ⟦<Either<bool> as RoundTrip<'de, R>>⟧.same v.either
        (option_row s (λ x. ⟦<Either<bool> as Serialize>⟧.data_of x s.human) ⟦<Either<bool> as Serialize>⟧.is_value
        (Only (⟦<Either<bool> as Deserialize<'de, R>>⟧.reads s.human R.lends) ⟦<Either<bool> as RoundTrip<'de, R>>⟧.same)
        (λ x5. (let law : (x : _) → tree_of s (⟦<Either<bool> as Serialize>⟧.data_of x s.human) ≢ Some nil = elim
        [ the_either.Left a1 ↦ newtype_variant_other s (codes "Left") _ | the_either.Right a1 a2 ↦ struct_variant_other s (codes "Right") _ ] in law x5))
        (λ x2 h2. (let law : (x : _) → ⟦<Either<bool> as Serialize>⟧.is_value x
        → LowersTo s (⟦<Either<bool> as Serialize>⟧.data_of x s.human)
        (λ m. (Only (⟦<Either<bool> as Deserialize<'de, R>>⟧.reads s.human R.lends) ⟦<Either<bool> as RoundTrip<'de, R>>⟧.same) m x) = let names = codes
        "Left" ∷ (codes "Right" ∷ []) in elim [
          | the_either.Left a1 ↦ λ fits. lowers_then s _ _ (λ m. (w : _)
              → (⟦<Either<bool> as Deserialize<'de, R>>⟧.reads s.human R.lends) m w
              → (b1 : _) × (w ≡ the_either.Left b1) × ⟦<bool as RoundTrip<'de, R>>⟧.same a1 b1)
              (newtype_variant_row s names (codes "Left") 0 refl
              (AtPlace 0 (Content (λ j. Only (⟦<bool as Deserialize<'de, R>>⟧.reads s.human R.lends) ⟦<bool as RoundTrip<'de, R>>⟧.same j a1))) _
              (λ j. Only (⟦<bool as Deserialize<'de, R>>⟧.reads s.human R.lends) ⟦<bool as RoundTrip<'de, R>>⟧.same j a1) (λ m h. (refl, h)) (truth_only s a1))
              (λ m q w r. variant_both names 0 _ _ _ m q r (λ c a b.
              (b.0, b.1, content_only (⟦<bool as Deserialize<'de, R>>⟧.reads s.human R.lends) ⟦<bool as RoundTrip<'de, R>>⟧.same a1 b.0 c a b.2)))
          | the_either.Right a1 a2 ↦ λ fits. lowers_then s _ _ (λ m. (w : _) → (⟦<Either<bool> as Deserialize<'de, R>>⟧.reads s.human R.lends) m w
              → (b1 : _) × (b2 : _) × (w ≡ the_either.Right b1 b2) × ⟦<i32 as RoundTrip<'de, R>>⟧.same a1 b1
              × ⟦<Option<Pair<bool>> as RoundTrip<'de, R>>⟧.same a2 b2)
              (struct_variant_row s names (codes "Right") 1 refl
              (AtPlace 1 (Content (OfFields (codes "by" ∷ (codes "pair" ∷ []))
              (Field (λ j. Only (⟦<i32 as Deserialize<'de, R>>⟧.reads s.human R.lends) ⟦<i32 as RoundTrip<'de, R>>⟧.same j a1) ⊥
              (Field (λ j. Only (⟦<Option<Pair<bool>> as Deserialize<'de, R>>⟧.reads s.human R.lends) ⟦<Option<Pair<bool>> as RoundTrip<'de, R>>⟧.same j a2) ⊥
              NoField))))) (codes "by" ∷ (codes "pair" ∷ [])) _ _ refl (λ m h. (refl, h))
              (fields_cons s (codes "by") _ _ _ (λ j. Only (⟦<i32 as Deserialize<'de, R>>⟧.reads s.human R.lends) ⟦<i32 as RoundTrip<'de, R>>⟧.same j a1) ⊥ _
              (signed_only s (negsuc 2147483647) (pos 2147483647) a1)
              (fields_cons s (codes "pair") _ _ _ (λ j. Only (⟦<Option<Pair<bool>> as Deserialize<'de, R>>⟧.reads s.human R.lends)
              ⟦<Option<Pair<bool>> as RoundTrip<'de, R>>⟧.same j a2) ⊥ _
              (option_only s _ (⟦<Pair<bool> as Deserialize<'de, R>>⟧.reads s.human R.lends) ⟦<Pair<bool> as RoundTrip<'de, R>>⟧.same a2
              (option_row s (λ x. ⟦<Pair<bool> as Serialize>⟧.data_of x s.human) ⟦<Pair<bool> as Serialize>⟧.is_value
              (Only (⟦<Pair<bool> as Deserialize<'de, R>>⟧.reads s.human R.lends) ⟦<Pair<bool> as RoundTrip<'de, R>>⟧.same) (λ x4. sequence_other s _)
              (λ x3 h3. (lowers_then s _ _ (λ m. (w : _) → (⟦<Pair<bool> as Deserialize<'de, R>>⟧.reads s.human R.lends) m w
              → ⟦<bool as RoundTrip<'de, R>>⟧.same x3.0 w.0 × ⟦<bool as RoundTrip<'de, R>>⟧.same x3.1 w.1)
              (sequence_row s _ _ (rows_cons s _ _ (λ j. Only (⟦<bool as Deserialize<'de, R>>⟧.reads s.human R.lends) ⟦<bool as RoundTrip<'de, R>>⟧.same j x3.0) _
              (truth_only s x3.0) (rows_cons s _ _ (λ j. Only (⟦<bool as Deserialize<'de, R>>⟧.reads s.human R.lends) ⟦<bool as RoundTrip<'de, R>>⟧.same j x3.1) _
              (truth_only s x3.1) (rows_none s)))) (λ m q w r. row_both _ _ _ m q r
              (item_only (⟦<bool as Deserialize<'de, R>>⟧.reads s.human R.lends) ⟦<bool as RoundTrip<'de, R>>⟧.same x3.0 w.0 _ _ _
              (last_only (⟦<bool as Deserialize<'de, R>>⟧.reads s.human R.lends) ⟦<bool as RoundTrip<'de, R>>⟧.same x3.1 w.1))))) a2 fits.1)) (fields_none s))))
              (λ m q w r. variant_both names 1 _ _ _ m q r (λ c a b. content_fields (codes "by" ∷ (codes "pair" ∷ [])) _ _ _ c a b.3
              (λ ks i j. let x = field_only (⟦<i32 as Deserialize<'de, R>>⟧.reads s.human R.lends) ⟦<i32 as RoundTrip<'de, R>>⟧.same a1 b.0 _ _ _ _
              (last_field (⟦<Option<Pair<bool>> as Deserialize<'de, R>>⟧.reads s.human R.lends) ⟦<Option<Pair<bool>> as RoundTrip<'de, R>>⟧.same a2 b.1 _) ks i j
              in (b.0, b.1, b.2, x.0, x.1))))
        ] in law x2 h2)) v.either fits.3)) (fields_none s))))))
        (λ m q w r. fields_both (codes "dogs" ∷ (codes "four" ∷ (codes "pair" ∷ (codes "either" ∷ [])))) _ _ _ m q r
        (λ ks i j. let x = field_only (⟦<Vec<Dog> as Deserialize<'de, R>>⟧.reads s.human R.lends) ⟦<Vec<Dog> as RoundTrip<'de, R>>⟧.same v.dogs w.dogs _ _ _
        _ (field_only (⟦<Box<Four> as Deserialize<'de, R>>⟧.reads s.human R.lends) ⟦<Box<Four> as RoundTrip<'de, R>>⟧.same v.four w.four _ _ _ _
        (field_only (⟦<Pair<Opt> as Deserialize<'de, R>>⟧.reads s.human R.lends) ⟦<Pair<Opt> as RoundTrip<'de, R>>⟧.same v.pair w.pair _ _ _ _
        (last_field (⟦<Option<Either<bool>> as Deserialize<'de, R>>⟧.reads s.human R.lends) ⟦<Option<Either<bool>> as RoundTrip<'de, R>>⟧.same v.either
        w.either _))) ks i j in (x.0, x.1.0, x.1.1.0, x.1.1.1))) };
}

impl NeverNil for Kennel {
    ghost never_nil = { λ s v. structure_other s _ };
}

impl<'de, R: ReadSlice<'de>> EndsInside<'de, R> for Kennel {
    ghost use Rattle.test_derived.specs.contracts.structs.derived.DogEndsInside.TheImpl.Laws as dog_ends;
    ghost use Rattle.test_derived.specs.contracts.enums.derived.FourEndsInside.TheImpl.Laws as four_ends;
    ghost use Rattle.test_derived.specs.contracts.structs.derived.OptEndsInside.TheImpl.Laws as opt_ends;
    ghost use mir.Syntax.{given};

    ghost ends_inside = { fields_inside _ _ _ (
      (each_inside ⟦<Dog as Deserialize<'de, R>>⟧.reads ⟦<Dog as Deserialize<'de, R>>⟧.refuses
          (dog_ends.ends_inside-law R.row R.ReadSlice.own (given 0) R.Source (given 0))),
      (
        (box_inside ⟦<Four as Deserialize<'de, R>>⟧.reads ⟦<Four as Deserialize<'de, R>>⟧.refuses
            (four_ends.ends_inside-law R.row R.ReadSlice.own (given 0) R.Source (given 0))),
        (
          (tuple_inside (part_of ⟦<Opt as Deserialize<'de, R>>⟧.reads ⟦<Opt as Deserialize<'de, R>>⟧.refuses
              ∷ (part_of ⟦<Opt as Deserialize<'de, R>>⟧.reads ⟦<Opt as Deserialize<'de, R>>⟧.refuses ∷ [])) (
                (opt_ends.ends_inside-law R.row R.ReadSlice.own (given 0) R.Source (given 0)),
                ((opt_ends.ends_inside-law R.row R.ReadSlice.own (given 0) R.Source (given 0)), tt),
              )),
          (
            (option_inside ⟦<Either<bool> as Deserialize<'de, R>>⟧.refuses
                (enum_inside _ _ (
                  with_content_inside _ (kind_inside),
                  (
                    with_content_inside _ (fields_inside _ _ _ (
                      number_inside,
                      (
                        (option_inside ⟦<Pair<bool> as Deserialize<'de, R>>⟧.refuses
                            (tuple_inside (part_of ⟦<bool as Deserialize<'de, R>>⟧.reads ⟦<bool as Deserialize<'de, R>>⟧.refuses
                            ∷ (part_of ⟦<bool as Deserialize<'de, R>>⟧.reads ⟦<bool as Deserialize<'de, R>>⟧.refuses ∷ [])) (kind_inside, (kind_inside, tt)))),
                        tt,
                      ),
                    )),
                    tt,
                  ),
                ))),
            tt,
          ),
        ),
      ),
    ) };
}

impl Serialize for Row {
    ghost data_of = { λ v human. structure_of ((codes "left", ⟦<VecDeque<(char, i8)> as Serialize>⟧.data_of v.left human)
        ∷ ((codes "far", ⟦<[u16; 3] as Serialize>⟧.data_of v.far human) ∷ ((codes "kennel", ⟦<Kennel as Serialize>⟧.data_of v.kennel human) ∷ []))) };

    ghost is_value = { λ v. ⟦<VecDeque<(char, i8)> as Serialize>⟧.is_value v.left × ⟦<[u16; 3] as Serialize>⟧.is_value v.far
        × ⟦<Kennel as Serialize>⟧.is_value v.kennel };

    ghost takes_memory = { λ s. one_of (⟦<VecDeque<(char, i8)> as Serialize>⟧.takes_memory s
        ∷ (⟦<[u16; 3] as Serialize>⟧.takes_memory s ∷ (⟦<Kennel as Serialize>⟧.takes_memory s ∷ []))) };

    ghost refuses = { λ v. OfParts ⊥ (⟦<VecDeque<(char, i8)> as Serialize>⟧.refuses v.left
        ∷ (⟦<[u16; 3] as Serialize>⟧.refuses v.far ∷ (⟦<Kennel as Serialize>⟧.refuses v.kennel ∷ []))) };

    fn serialize<W: Sink, C: SerializerConfig>(
        &self,
        se: &mut Serializer<W, C>,
    ) -> Result<(), rmp_encode::Error> {
        let parts = rmp_encode::Three {
            first: &self.left,
            second: &self.far,
            third: &self.kennel,
        };
        se.serialize_fields("Row", &["left", "far", "kennel"], &parts)
    }

    #[tactic(auto, using(rmp_encode::proofs::Fields::structure_no_byte))]
    fn as_u8(&self, _human: bool) -> Option<u8> {
        None
    }
}

impl<'de, R: ReadSlice<'de>> Deserialize<'de, R> for Row {
    ghost reads = { λ human lends m v. OfFields (codes "left" ∷ (codes "far" ∷ (codes "kennel" ∷ [])))
        (Field (λ j. ⟦<VecDeque<(char, i8)> as Deserialize<'de, R>>⟧.reads human lends j v.left)
        (Absent ⟦<VecDeque<(char, i8)> as Deserialize<'de, R>>⟧.absent v.left)
        (Field (λ j. ⟦<[u16; 3] as Deserialize<'de, R>>⟧.reads human lends j v.far) (Absent ⟦<[u16; 3] as Deserialize<'de, R>>⟧.absent v.far)
        (Field (λ j. ⟦<Kennel as Deserialize<'de, R>>⟧.reads human lends j v.kennel) (Absent ⟦<Kennel as Deserialize<'de, R>>⟧.absent v.kennel) NoField))) m };

    ghost absent = { None };

    ghost refuses = { RefusesFields (codes "left" ∷ (codes "far" ∷ (codes "kennel" ∷ [])))
        (is_none ⟦<VecDeque<(char, i8)> as Deserialize<'de, R>>⟧.absent
        ∷ (is_none ⟦<[u16; 3] as Deserialize<'de, R>>⟧.absent ∷ (is_none ⟦<Kennel as Deserialize<'de, R>>⟧.absent ∷ [])))
        (part_of ⟦<VecDeque<(char, i8)> as Deserialize<'de, R>>⟧.reads ⟦<VecDeque<(char, i8)> as Deserialize<'de, R>>⟧.refuses
        ∷ (part_of ⟦<[u16; 3] as Deserialize<'de, R>>⟧.reads ⟦<[u16; 3] as Deserialize<'de, R>>⟧.refuses
        ∷ (part_of ⟦<Kennel as Deserialize<'de, R>>⟧.reads ⟦<Kennel as Deserialize<'de, R>>⟧.refuses ∷ []))) };

    #[inline(always)]
    fn deserialize<C: SerializerConfig>(
        de: &mut Deserializer<R, C>,
    ) -> Result<Row, rmp_decode::Error> {
        let read: Result<(VecDeque<(char, i8)>, ([u16; 3], (Kennel, ()))), rmp_decode::Error> =
            rmp_decode::read_fields_3(de, &["left", "far", "kennel"]);
        match read {
            Ok(parts) => {
                let (left, (far, (kennel, ()))) = parts;
                return Ok(Row { left, far, kennel });
            }
            Err(e) => return Err(e),
        }
    }

    fn missing() -> Option<Row> {
        None
    }
}

impl<'de, R: ReadSlice<'de>> RoundTrip<'de, R> for Row {
    ghost use Rattle.test_derived.specs.contracts.kinds.derived.KennelRoundTrip.TheImpl.Laws as kennel_rounds;
    ghost use mir.Syntax.{given};

    ghost has_data = { λ human v. structure_all ((codes "left", ⟦<VecDeque<(char, i8)> as Serialize>⟧.data_of v.left human)
        ∷ ((codes "far", ⟦<[u16; 3] as Serialize>⟧.data_of v.far human) ∷ ((codes "kennel", ⟦<Kennel as Serialize>⟧.data_of v.kennel human) ∷ []))) (
          (sequence_some _ (each_some (λ x. ⟦<(char, i8) as Serialize>⟧.data_of x human)
              (λ x1. (tuple_all (⟦<char as Serialize>⟧.data_of x1.0 human ∷ (⟦<i8 as Serialize>⟧.data_of x1.1 human ∷ [])) (refl, (refl, tt)))) v.left.items)),
          (
            (tuple_some _ (each_some (λ x. ⟦<u16 as Serialize>⟧.data_of x human) (λ x2. refl) v.far)),
            ((kennel_rounds.has_data-law R.row R.ReadSlice.own (given 0) R.Source (given 0) human v.kennel), tt),
          ),
        ) };

    ghost round = { λ lent s v fits. structure_row s (codes "left" ∷ (codes "far" ∷ (codes "kennel" ∷ []))) _ _ refl
        (fields_cons s (codes "left") _ _ _ (λ j. ⟦<VecDeque<(char, i8)> as Deserialize<'de, R>>⟧.reads s.human R.lends j v.left)
        (Absent ⟦<VecDeque<(char, i8)> as Deserialize<'de, R>>⟧.absent v.left) _
        (sequence_row s _ (λ ms. ReadsEach (⟦<(char, i8) as Deserialize<'de, R>>⟧.reads s.human R.lends) ms v.left.items)
        (each_row s (λ x. ⟦<(char, i8) as Serialize>⟧.data_of x s.human) ⟦<(char, i8) as Serialize>⟧.is_value
        (⟦<(char, i8) as Deserialize<'de, R>>⟧.reads s.human R.lends)
        (λ x4 h4. (tuple_row s _ _ (rows_cons s _ _ (λ j. ⟦<char as Deserialize<'de, R>>⟧.reads s.human R.lends j x4.0) _ (char_row s x4.0 h4.0)
        (rows_cons s _ _ (λ j. ⟦<i8 as Deserialize<'de, R>>⟧.reads s.human R.lends j x4.1) _ (signed_row_8 s x4.1 h4.1) (rows_none s))))) v.left.items
        fits.0)) (fields_cons s (codes "far") _ _ _ (λ j. ⟦<[u16; 3] as Deserialize<'de, R>>⟧.reads s.human R.lends j v.far)
        (Absent ⟦<[u16; 3] as Deserialize<'de, R>>⟧.absent v.far) _
        (tuple_row s _ (Exactly 3 (⟦<u16 as Deserialize<'de, R>>⟧.reads s.human R.lends) v.far)
        (rows_map s _ _ _ (λ ms each. (fits.1.0, each)) (each_row s (λ x. ⟦<u16 as Serialize>⟧.data_of x s.human) ⟦<u16 as Serialize>⟧.is_value
        (⟦<u16 as Deserialize<'de, R>>⟧.reads s.human R.lends) (λ x5 h5. (unsigned_row_16 s x5 h5)) v.far fits.1.1)))
        (fields_cons s (codes "kennel") _ _ _ (λ j. ⟦<Kennel as Deserialize<'de, R>>⟧.reads s.human R.lends j v.kennel)
        (Absent ⟦<Kennel as Deserialize<'de, R>>⟧.absent v.kennel) _
        (kennel_rounds.round-law R.row R.ReadSlice.own (given 0) R.Source (given 0) (λ e. cc) s v.kennel fits.2) (fields_none s)))) };

    ghost same = { λ v w. ⟦<VecDeque<(char, i8)> as RoundTrip<'de, R>>⟧.same v.left w.left × ⟦<[u16; 3] as RoundTrip<'de, R>>⟧.same v.far w.far
        × ⟦<Kennel as RoundTrip<'de, R>>⟧.same v.kennel w.kennel };

    ghost alike = { λ human v w h i. structure_of ((
      codes "left",
      (sequence_alike ⟦<(char, i8) as RoundTrip<'de, R>>⟧.same (λ x. ⟦<(char, i8) as Serialize>⟧.data_of x human)
          (λ x3 yx3 h3 i. (tuple_of ((⟦<char as Serialize>⟧.data_of (h3.0 i) human) ∷ ((⟦<i8 as Serialize>⟧.data_of (h3.1 i) human) ∷ [])))) v.left.items
          w.left.items h.0 i),
    ) ∷ ((
      codes "far",
      (array_alike ⟦<u16 as RoundTrip<'de, R>>⟧.same (λ x. ⟦<u16 as Serialize>⟧.data_of x human)
          (λ x4 yx4 h4 i. (⟦<u16 as Serialize>⟧.data_of (h4 i) human)) v.far w.far h.1 i),
    )
        ∷ ((codes "kennel", (kennel_rounds.alike-law R.row R.ReadSlice.own (given 0) R.Source (given 0) human v.kennel w.kennel h.2 i)) ∷ []))) };

    ghost only = { λ s v fits. lowers_then s _ _ (λ m. (w : _) → (⟦<Row as Deserialize<'de, R>>⟧.reads s.human R.lends) m w
        → ⟦<VecDeque<(char, i8)> as RoundTrip<'de, R>>⟧.same v.left w.left × ⟦<[u16; 3] as RoundTrip<'de, R>>⟧.same v.far w.far
        × ⟦<Kennel as RoundTrip<'de, R>>⟧.same v.kennel w.kennel)
        (structure_row s (codes "left" ∷ (codes "far" ∷ (codes "kennel" ∷ []))) _ _ refl
        (fields_cons s (codes "left") _ _ _ (λ j. Only (⟦<VecDeque<(char, i8)> as Deserialize<'de, R>>⟧.reads s.human R.lends)
        ⟦<VecDeque<(char, i8)> as RoundTrip<'de, R>>⟧.same j v.left) ⊥ _
        (list_only s _ (λ w. w.items) (⟦<(char, i8) as Deserialize<'de, R>>⟧.reads s.human R.lends) ⟦<(char, i8) as RoundTrip<'de, R>>⟧.same v.left.items
        (sequence_row s _ (λ ms. ReadsEach (Only (⟦<(char, i8) as Deserialize<'de, R>>⟧.reads s.human R.lends) ⟦<(char, i8) as RoundTrip<'de, R>>⟧.same) ms
        v.left.items) (each_row s (λ x. ⟦<(char, i8) as Serialize>⟧.data_of x s.human) ⟦<(char, i8) as Serialize>⟧.is_value
        (Only (⟦<(char, i8) as Deserialize<'de, R>>⟧.reads s.human R.lends) ⟦<(char, i8) as RoundTrip<'de, R>>⟧.same)
        (λ x1 h1. (lowers_then s _ _ (λ j. Only (⟦<(char, i8) as Deserialize<'de, R>>⟧.reads s.human R.lends) ⟦<(char, i8) as RoundTrip<'de, R>>⟧.same j x1)
        (tuple_row s _ _ (rows_cons s _ _ (λ j. Only (⟦<char as Deserialize<'de, R>>⟧.reads s.human R.lends) ⟦<char as RoundTrip<'de, R>>⟧.same j x1.0) _
        (char_only s x1.0 h1.0) (rows_cons s _ _ (λ j. Only (⟦<i8 as Deserialize<'de, R>>⟧.reads s.human R.lends) ⟦<i8 as RoundTrip<'de, R>>⟧.same j x1.1) _
        (signed_only s (negsuc 127) (pos 127) x1.1) (rows_none s))))
        (λ m q w r. row_both _ _ _ m q r (item_only (⟦<char as Deserialize<'de, R>>⟧.reads s.human R.lends) ⟦<char as RoundTrip<'de, R>>⟧.same x1.0 w.0 _ _
        _ (last_only (⟦<i8 as Deserialize<'de, R>>⟧.reads s.human R.lends) ⟦<i8 as RoundTrip<'de, R>>⟧.same x1.1 w.1))))) v.left.items fits.0)))
        (fields_cons s (codes "far") _ _ _ (λ j. Only (⟦<[u16; 3] as Deserialize<'de, R>>⟧.reads s.human R.lends) ⟦<[u16; 3] as RoundTrip<'de, R>>⟧.same j
        v.far) ⊥ _ (array_only s _ 3 (⟦<u16 as Deserialize<'de, R>>⟧.reads s.human R.lends) ⟦<u16 as RoundTrip<'de, R>>⟧.same v.far
        (tuple_row s _ (λ ms. ReadsEach (Only (⟦<u16 as Deserialize<'de, R>>⟧.reads s.human R.lends) ⟦<u16 as RoundTrip<'de, R>>⟧.same) ms v.far)
        (each_row s (λ x. ⟦<u16 as Serialize>⟧.data_of x s.human) ⟦<u16 as Serialize>⟧.is_value
        (Only (⟦<u16 as Deserialize<'de, R>>⟧.reads s.human R.lends) ⟦<u16 as RoundTrip<'de, R>>⟧.same) (λ x2 h2. (unsigned_only s 65535 x2)) v.far
        fits.1.1))) (fields_cons s (codes "kennel") _ _ _ (λ j. Only (⟦<Kennel as Deserialize<'de, R>>⟧.reads s.human R.lends)
        ⟦<Kennel as RoundTrip<'de, R>>⟧.same j v.kennel) ⊥ _ (kennel_rounds.only-law R.row R.ReadSlice.own (given 0) R.Source (given 0) s v.kennel fits.2)
        (fields_none s))))) (λ m q w r. fields_both (codes "left" ∷ (codes "far" ∷ (codes "kennel" ∷ []))) _ _ _ m q r
        (λ ks i j. let x = field_only (⟦<VecDeque<(char, i8)> as Deserialize<'de, R>>⟧.reads s.human R.lends)
        ⟦<VecDeque<(char, i8)> as RoundTrip<'de, R>>⟧.same v.left w.left _ _ _ _
        (field_only (⟦<[u16; 3] as Deserialize<'de, R>>⟧.reads s.human R.lends) ⟦<[u16; 3] as RoundTrip<'de, R>>⟧.same v.far w.far _ _ _ _
        (last_field (⟦<Kennel as Deserialize<'de, R>>⟧.reads s.human R.lends) ⟦<Kennel as RoundTrip<'de, R>>⟧.same v.kennel w.kennel _)) ks i j
        in (x.0, x.1.0, x.1.1))) };
}

impl NeverNil for Row {
    ghost never_nil = { λ s v. structure_other s _ };
}

impl<'de, R: ReadSlice<'de>> EndsInside<'de, R> for Row {
    ghost use Rattle.test_derived.specs.contracts.kinds.derived.KennelEndsInside.TheImpl.Laws as kennel_ends;
    ghost use mir.Syntax.{given};

    ghost ends_inside = { fields_inside _ _ _ (
      (each_inside ⟦<(char, i8) as Deserialize<'de, R>>⟧.reads ⟦<(char, i8) as Deserialize<'de, R>>⟧.refuses
          (tuple_inside (part_of ⟦<char as Deserialize<'de, R>>⟧.reads ⟦<char as Deserialize<'de, R>>⟧.refuses
          ∷ (part_of ⟦<i8 as Deserialize<'de, R>>⟧.reads ⟦<i8 as Deserialize<'de, R>>⟧.refuses ∷ [])) (char_inside, (number_inside, tt)))),
      (
        (array_inside _ 3 ⟦<u16 as Deserialize<'de, R>>⟧.reads ⟦<u16 as Deserialize<'de, R>>⟧.refuses number_inside),
        ((kennel_ends.ends_inside-law R.row R.ReadSlice.own (given 0) R.Source (given 0)), tt),
      ),
    ) };
}

impl Serialize for Guests {
    ghost data_of = { λ v human. structure_of ((codes "counted", ⟦<Counted<Opt> as Serialize>⟧.data_of v.counted human)
        ∷ ((codes "mixed", ⟦<Mixed<bool> as Serialize>⟧.data_of v.mixed human) ∷ [])) };

    ghost is_value = { λ v. ⟦<Counted<Opt> as Serialize>⟧.is_value v.counted × ⟦<Mixed<bool> as Serialize>⟧.is_value v.mixed };

    ghost takes_memory = { λ s. one_of (⟦<Counted<Opt> as Serialize>⟧.takes_memory s ∷ (⟦<Mixed<bool> as Serialize>⟧.takes_memory s ∷ [])) };

    ghost refuses = { λ v. OfParts ⊥ (⟦<Counted<Opt> as Serialize>⟧.refuses v.counted ∷ (⟦<Mixed<bool> as Serialize>⟧.refuses v.mixed ∷ [])) };

    fn serialize<W: Sink, C: SerializerConfig>(
        &self,
        se: &mut Serializer<W, C>,
    ) -> Result<(), rmp_encode::Error> {
        let parts = rmp_encode::Both {
            first: &self.counted,
            second: &self.mixed,
        };
        se.serialize_fields("Guests", &["counted", "mixed"], &parts)
    }

    #[tactic(auto, using(rmp_encode::proofs::Fields::structure_no_byte))]
    fn as_u8(&self, _human: bool) -> Option<u8> {
        None
    }
}

impl<'de, R: ReadSlice<'de>> Deserialize<'de, R> for Guests {
    ghost reads = { λ human lends m v. OfFields (codes "counted" ∷ (codes "mixed" ∷ []))
        (Field (λ j. ⟦<Counted<Opt> as Deserialize<'de, R>>⟧.reads human lends j v.counted)
        (Absent ⟦<Counted<Opt> as Deserialize<'de, R>>⟧.absent v.counted)
        (Field (λ j. ⟦<Mixed<bool> as Deserialize<'de, R>>⟧.reads human lends j v.mixed) (Absent ⟦<Mixed<bool> as Deserialize<'de, R>>⟧.absent v.mixed)
        NoField)) m };

    ghost absent = { None };

    ghost refuses = { RefusesFields (codes "counted" ∷ (codes "mixed" ∷ []))
        (is_none ⟦<Counted<Opt> as Deserialize<'de, R>>⟧.absent ∷ (is_none ⟦<Mixed<bool> as Deserialize<'de, R>>⟧.absent ∷ []))
        (part_of ⟦<Counted<Opt> as Deserialize<'de, R>>⟧.reads ⟦<Counted<Opt> as Deserialize<'de, R>>⟧.refuses
        ∷ (part_of ⟦<Mixed<bool> as Deserialize<'de, R>>⟧.reads ⟦<Mixed<bool> as Deserialize<'de, R>>⟧.refuses ∷ [])) };

    #[inline(always)]
    fn deserialize<C: SerializerConfig>(
        de: &mut Deserializer<R, C>,
    ) -> Result<Guests, rmp_decode::Error> {
        let read: Result<(Counted<Opt>, (Mixed<bool>, ())), rmp_decode::Error> =
            rmp_decode::read_fields_2(de, &["counted", "mixed"]);
        match read {
            Ok(parts) => {
                let (counted, (mixed, ())) = parts;
                return Ok(Guests { counted, mixed });
            }
            Err(e) => return Err(e),
        }
    }

    fn missing() -> Option<Guests> {
        None
    }
}

impl<'de, R: ReadSlice<'de>> RoundTrip<'de, R> for Guests {
    ghost use Rattle.test_derived.specs.contracts.structs.derived.DogRoundTrip.TheImpl.Laws as dog_rounds;
    ghost use Rattle.test_derived.specs.contracts.enums.derived.FourNeverNil.TheImpl.Laws as four_other;
    ghost use Rattle.test_derived.specs.contracts.enums.derived.FourRoundTrip.TheImpl.Laws as four_rounds;
    ghost use Rattle.test_derived.specs.contracts.structs.derived.OptRoundTrip.TheImpl.Laws as opt_rounds;
    ghost use mir.Syntax.{given};

    ghost has_data = { λ human v. structure_all ((codes "counted", ⟦<Counted<Opt> as Serialize>⟧.data_of v.counted human)
        ∷ ((codes "mixed", ⟦<Mixed<bool> as Serialize>⟧.data_of v.mixed human) ∷ [])) (
          (structure_all ((codes "value", ⟦<Opt as Serialize>⟧.data_of v.counted.value human)
              ∷ ((codes "count", ⟦<u64 as Serialize>⟧.data_of v.counted.count human) ∷ []))
              ((opt_rounds.has_data-law R.row R.ReadSlice.own (given 0) R.Source (given 0) human v.counted.value), (refl, tt))),
          (
            (let law : (x : _) → IsSome (⟦<Mixed<bool> as Serialize>⟧.data_of x human) = elim [
              | the_mixed.Other a1 ↦ newtype_variant_some (codes "Other") (⟦<bool as Serialize>⟧.data_of a1 human) refl
              | the_mixed.Kept a1 a2 ↦
                  struct_variant_all (codes "Kept") ((codes "four", ⟦<Option<Four> as Serialize>⟧.data_of a1 human)
                  ∷ ((codes "dog", ⟦<Dog as Serialize>⟧.data_of a2 human) ∷ [])) (
                    (option_some (λ x. ⟦<Four as Serialize>⟧.data_of x human)
                        (λ x4. (four_rounds.has_data-law R.row R.ReadSlice.own (given 0) R.Source (given 0) human x4)) a1),
                    ((dog_rounds.has_data-law R.row R.ReadSlice.own (given 0) R.Source (given 0) human a2), tt),
                  )
            ] in law v.mixed),
            tt,
          ),
        ) };

    ghost round = { λ lent s v fits. structure_row s (codes "counted" ∷ (codes "mixed" ∷ [])) _ _ refl
        (fields_cons s (codes "counted") _ _ _ (λ j. ⟦<Counted<Opt> as Deserialize<'de, R>>⟧.reads s.human R.lends j v.counted)
        (Absent ⟦<Counted<Opt> as Deserialize<'de, R>>⟧.absent v.counted) _
        (structure_row s (codes "value" ∷ (codes "count" ∷ [])) _ _ refl
        (fields_cons s (codes "value") _ _ _ (λ j. ⟦<Opt as Deserialize<'de, R>>⟧.reads s.human R.lends j v.counted.value)
        (Absent ⟦<Opt as Deserialize<'de, R>>⟧.absent v.counted.value) _
        (opt_rounds.round-law R.row R.ReadSlice.own (given 0) R.Source (given 0) (λ e. cc) s v.counted.value fits.0.0)
        (fields_cons s (codes "count") _ _ _ (λ j. ⟦<u64 as Deserialize<'de, R>>⟧.reads s.human R.lends j v.counted.count)
        (Absent ⟦<u64 as Deserialize<'de, R>>⟧.absent v.counted.count) _ (unsigned_row_64 s v.counted.count fits.0.1) (fields_none s))))
        (fields_cons s (codes "mixed") _ _ _ (λ j. ⟦<Mixed<bool> as Deserialize<'de, R>>⟧.reads s.human R.lends j v.mixed)
        (Absent ⟦<Mixed<bool> as Deserialize<'de, R>>⟧.absent v.mixed) _ (let law : (x : _) → ⟦<Mixed<bool> as Serialize>⟧.is_value x
        → LowersTo s (⟦<Mixed<bool> as Serialize>⟧.data_of x s.human)
        (λ m. ⟦<Mixed<bool> as Deserialize<'de, R>>⟧.reads s.human R.lends m x) = let names = codes "Other" ∷ (codes "Kept" ∷ [])
        in elim [
          | the_mixed.Other a1 ↦ λ fits. newtype_variant_row s names (codes "Other") 0 refl _ _
              (λ j. ⟦<bool as Deserialize<'de, R>>⟧.reads s.human R.lends j a1) (λ m h. (a1, refl, h)) (truth_row s a1)
          | the_mixed.Kept a1 a2 ↦ λ fits.
              struct_variant_row s names (codes "Kept") 1 refl _ (codes "four" ∷ (codes "dog" ∷ [])) _ _ refl (λ m h. (a1, a2, refl, h))
              (fields_cons s (codes "four") _ _ _ (λ j. ⟦<Option<Four> as Deserialize<'de, R>>⟧.reads s.human R.lends j a1)
              (Absent ⟦<Option<Four> as Deserialize<'de, R>>⟧.absent a1) _
              (option_row s (λ x. ⟦<Four as Serialize>⟧.data_of x s.human) ⟦<Four as Serialize>⟧.is_value (⟦<Four as Deserialize<'de, R>>⟧.reads s.human R.lends)
              (λ x8. four_other.never_nil-law s x8) (λ x7 h7. (four_rounds.round-law R.row R.ReadSlice.own (given 0) R.Source (given 0) (λ e. cc) s x7 h7)) a1
              fits.0) (fields_cons s (codes "dog") _ _ _ (λ j. ⟦<Dog as Deserialize<'de, R>>⟧.reads s.human R.lends j a2)
              (Absent ⟦<Dog as Deserialize<'de, R>>⟧.absent a2) _ (dog_rounds.round-law R.row R.ReadSlice.own (given 0) R.Source (given 0) (λ e. cc) s a2 fits.1)
              (fields_none s)))
        ] in law v.mixed fits.1) (fields_none s))) };

    ghost same = { λ v w. ⟦<Counted<Opt> as RoundTrip<'de, R>>⟧.same v.counted w.counted × ⟦<Mixed<bool> as RoundTrip<'de, R>>⟧.same v.mixed w.mixed };

    ghost alike = { λ human v w h i. structure_of ((
      codes "counted",
      (structure_of ((
        codes "value",
        (opt_rounds.alike-law R.row R.ReadSlice.own (given 0) R.Source (given 0) human v.counted.value w.counted.value h.0.0
            i),
      ) ∷ ((codes "count", (⟦<u64 as Serialize>⟧.data_of (h.0.1 i) human)) ∷ []))),
    )
        ∷ ((
          codes "mixed",
          (let law : (x y : _) → ⟦<Mixed<bool> as RoundTrip<'de, R>>⟧.same x y
              → ⟦<Mixed<bool> as Serialize>⟧.data_of x human ≡ ⟦<Mixed<bool> as Serialize>⟧.data_of y human = elim [
                | the_mixed.Other a1 ↦ λ w h. variant_alike (λ x. ⟦<Mixed<bool> as Serialize>⟧.data_of x human) w (the_mixed.Other h.0) h.1
                    (λ i. newtype_variant_of (codes "Other") (⟦<bool as Serialize>⟧.data_of (h.2 i) human))
                | the_mixed.Kept a1 a2 ↦ λ w h. variant_alike
                    (λ x. ⟦<Mixed<bool> as Serialize>⟧.data_of x human) w (the_mixed.Kept h.0 h.1) h.2
                    (λ i. struct_variant_of (codes "Kept") ((
                      codes "four",
                      (option_alike ⟦<Four as RoundTrip<'de, R>>⟧.same (λ x. ⟦<Four as Serialize>⟧.data_of x human)
                          (λ x3 yx3 h3 i. (four_rounds.alike-law R.row R.ReadSlice.own (given 0) R.Source (given 0) human x3 yx3 h3 i)) a1 h.0 h.3 i),
                    )
                    ∷ ((codes "dog", (dog_rounds.alike-law R.row R.ReadSlice.own (given 0) R.Source (given 0) human a2 h.1 h.4 i)) ∷ [])))
              ]
              in law v.mixed w.mixed h.1 i),
        ) ∷ [])) };

    ghost only = { λ s v fits. lowers_then s _ _ (λ m. (w : _) → (⟦<Guests as Deserialize<'de, R>>⟧.reads s.human R.lends) m w
        → ⟦<Counted<Opt> as RoundTrip<'de, R>>⟧.same v.counted w.counted × ⟦<Mixed<bool> as RoundTrip<'de, R>>⟧.same v.mixed w.mixed)
        (structure_row s (codes "counted" ∷ (codes "mixed" ∷ [])) _ _ refl
        (fields_cons s (codes "counted") _ _ _ (λ j. Only (⟦<Counted<Opt> as Deserialize<'de, R>>⟧.reads s.human R.lends)
        ⟦<Counted<Opt> as RoundTrip<'de, R>>⟧.same j v.counted) ⊥ _
        (lowers_then s _ _ (λ m. (w : _) → (⟦<Counted<Opt> as Deserialize<'de, R>>⟧.reads s.human R.lends) m w
        → ⟦<Opt as RoundTrip<'de, R>>⟧.same v.counted.value w.value × ⟦<u64 as RoundTrip<'de, R>>⟧.same v.counted.count w.count)
        (structure_row s (codes "value" ∷ (codes "count" ∷ [])) _ _ refl
        (fields_cons s (codes "value") _ _ _ (λ j. Only (⟦<Opt as Deserialize<'de, R>>⟧.reads s.human R.lends) ⟦<Opt as RoundTrip<'de, R>>⟧.same j
        v.counted.value) ⊥ _ (opt_rounds.only-law R.row R.ReadSlice.own (given 0) R.Source (given 0) s v.counted.value fits.0.0)
        (fields_cons s (codes "count") _ _ _ (λ j. Only (⟦<u64 as Deserialize<'de, R>>⟧.reads s.human R.lends) ⟦<u64 as RoundTrip<'de, R>>⟧.same j
        v.counted.count) ⊥ _ (unsigned_only s 18446744073709551615 v.counted.count) (fields_none s))))
        (λ m q w r. fields_both (codes "value" ∷ (codes "count" ∷ [])) _ _ _ m q r
        (field_only (⟦<Opt as Deserialize<'de, R>>⟧.reads s.human R.lends) ⟦<Opt as RoundTrip<'de, R>>⟧.same v.counted.value w.value _ _ _ _
        (last_field (⟦<u64 as Deserialize<'de, R>>⟧.reads s.human R.lends) ⟦<u64 as RoundTrip<'de, R>>⟧.same v.counted.count w.count _))))
        (fields_cons s (codes "mixed") _ _ _ (λ j. Only (⟦<Mixed<bool> as Deserialize<'de, R>>⟧.reads s.human R.lends)
        ⟦<Mixed<bool> as RoundTrip<'de, R>>⟧.same j v.mixed) ⊥ _ (let law : (x : _) → ⟦<Mixed<bool> as Serialize>⟧.is_value x
        → LowersTo s (⟦<Mixed<bool> as Serialize>⟧.data_of x s.human)
        (λ m. (Only (⟦<Mixed<bool> as Deserialize<'de, R>>⟧.reads s.human R.lends) ⟦<Mixed<bool> as RoundTrip<'de, R>>⟧.same) m x) = let names = codes
        "Other" ∷ (codes "Kept" ∷ []) in elim [
          | the_mixed.Other a1 ↦ λ fits. lowers_then s _ _ (λ m. (w : _)
              → (⟦<Mixed<bool> as Deserialize<'de, R>>⟧.reads s.human R.lends) m w
              → (b1 : _) × (w ≡ the_mixed.Other b1) × ⟦<bool as RoundTrip<'de, R>>⟧.same a1 b1)
              (newtype_variant_row s names (codes "Other") 0 refl
              (AtPlace 0 (Content (λ j. Only (⟦<bool as Deserialize<'de, R>>⟧.reads s.human R.lends) ⟦<bool as RoundTrip<'de, R>>⟧.same j a1))) _
              (λ j. Only (⟦<bool as Deserialize<'de, R>>⟧.reads s.human R.lends) ⟦<bool as RoundTrip<'de, R>>⟧.same j a1) (λ m h. (refl, h)) (truth_only s a1))
              (λ m q w r. variant_both names 0 _ _ _ m q r (λ c a b.
              (b.0, b.1, content_only (⟦<bool as Deserialize<'de, R>>⟧.reads s.human R.lends) ⟦<bool as RoundTrip<'de, R>>⟧.same a1 b.0 c a b.2)))
          | the_mixed.Kept a1 a2 ↦ λ fits. lowers_then s _ _ (λ m. (w : _) → (⟦<Mixed<bool> as Deserialize<'de, R>>⟧.reads s.human R.lends) m w
              → (b1 : _) × (b2 : _) × (w ≡ the_mixed.Kept b1 b2) × ⟦<Option<Four> as RoundTrip<'de, R>>⟧.same a1 b1 × ⟦<Dog as RoundTrip<'de, R>>⟧.same a2 b2)
              (struct_variant_row s names (codes "Kept") 1 refl (AtPlace 1
              (Content (OfFields (codes "four" ∷ (codes "dog" ∷ []))
              (Field (λ j. Only (⟦<Option<Four> as Deserialize<'de, R>>⟧.reads s.human R.lends) ⟦<Option<Four> as RoundTrip<'de, R>>⟧.same j a1) ⊥
              (Field (λ j. Only (⟦<Dog as Deserialize<'de, R>>⟧.reads s.human R.lends) ⟦<Dog as RoundTrip<'de, R>>⟧.same j a2) ⊥ NoField)))))
              (codes "four" ∷ (codes "dog" ∷ [])) _ _ refl (λ m h. (refl, h))
              (fields_cons s (codes "four") _ _ _ (λ j. Only (⟦<Option<Four> as Deserialize<'de, R>>⟧.reads s.human R.lends)
              ⟦<Option<Four> as RoundTrip<'de, R>>⟧.same j a1) ⊥ _
              (option_only s _ (⟦<Four as Deserialize<'de, R>>⟧.reads s.human R.lends) ⟦<Four as RoundTrip<'de, R>>⟧.same a1
              (option_row s (λ x. ⟦<Four as Serialize>⟧.data_of x s.human) ⟦<Four as Serialize>⟧.is_value
              (Only (⟦<Four as Deserialize<'de, R>>⟧.reads s.human R.lends) ⟦<Four as RoundTrip<'de, R>>⟧.same) (λ x2. four_other.never_nil-law s x2)
              (λ x1 h1. (four_rounds.only-law R.row R.ReadSlice.own (given 0) R.Source (given 0) s x1 h1)) a1 fits.0))
              (fields_cons s (codes "dog") _ _ _ (λ j. Only (⟦<Dog as Deserialize<'de, R>>⟧.reads s.human R.lends) ⟦<Dog as RoundTrip<'de, R>>⟧.same j a2) ⊥ _
              (dog_rounds.only-law R.row R.ReadSlice.own (given 0) R.Source (given 0) s a2 fits.1) (fields_none s))))
              (λ m q w r. variant_both names 1 _ _ _ m q r (λ c a b. content_fields (codes "four" ∷ (codes "dog" ∷ [])) _ _ _ c a b.3
              (λ ks i j. let x = field_only (⟦<Option<Four> as Deserialize<'de, R>>⟧.reads s.human R.lends) ⟦<Option<Four> as RoundTrip<'de, R>>⟧.same a1 b.0 _ _
              _ _ (last_field (⟦<Dog as Deserialize<'de, R>>⟧.reads s.human R.lends) ⟦<Dog as RoundTrip<'de, R>>⟧.same a2 b.1 _) ks i j
              in (b.0, b.1, b.2, x.0, x.1))))
        ] in law v.mixed fits.1) (fields_none s))))
        (λ m q w r. fields_both (codes "counted" ∷ (codes "mixed" ∷ [])) _ _ _ m q r
        (field_only (⟦<Counted<Opt> as Deserialize<'de, R>>⟧.reads s.human R.lends) ⟦<Counted<Opt> as RoundTrip<'de, R>>⟧.same v.counted w.counted _ _ _ _
        (last_field (⟦<Mixed<bool> as Deserialize<'de, R>>⟧.reads s.human R.lends) ⟦<Mixed<bool> as RoundTrip<'de, R>>⟧.same v.mixed w.mixed _))) };
}

impl NeverNil for Guests {
    ghost never_nil = { λ s v. structure_other s _ };
}

impl<'de, R: ReadSlice<'de>> EndsInside<'de, R> for Guests {
    ghost use Rattle.test_derived.specs.contracts.structs.derived.DogEndsInside.TheImpl.Laws as dog_ends;
    ghost use Rattle.test_derived.specs.contracts.enums.derived.FourEndsInside.TheImpl.Laws as four_ends;
    ghost use Rattle.test_derived.specs.contracts.structs.derived.OptEndsInside.TheImpl.Laws as opt_ends;
    ghost use mir.Syntax.{given};

    ghost ends_inside = { fields_inside _ _ _ (
      (fields_inside _ _ _
          ((opt_ends.ends_inside-law R.row R.ReadSlice.own (given 0) R.Source (given 0)), (number_inside, tt))),
      (
        (enum_inside _ _ (
          with_content_inside _ (kind_inside),
          (
            with_content_inside _ (fields_inside _ _ _ (
              (option_inside ⟦<Four as Deserialize<'de, R>>⟧.refuses
                  (four_ends.ends_inside-law R.row R.ReadSlice.own (given 0) R.Source (given 0))),
              ((dog_ends.ends_inside-law R.row R.ReadSlice.own (given 0) R.Source (given 0)), tt),
            )),
            tt,
          ),
        )),
        tt,
      ),
    ) };
}
