//! How the types of versions.rt are written and read. Written by tools/derive.py.
//!
//! Sum of First: 1f224662.
//! Sum of Second: 1068687b.
ghost use Rattle.rmp_decode.specs.FieldRefusing.{RefusesFields};
ghost use Rattle.rmp_decode.specs.Fields.{OfFields, Field, Absent, NoField};
ghost use Rattle.rmp_decode.specs.Refusing.{part_of};
ghost use Rattle.rmp_encode.specs.Refusals.{OfParts};
ghost use Rattle.rmp_encode.specs.Sizes.{one_of};
ghost use Rattle.rmp_encode.specs.Trees.{structure_of};
ghost use Rattle.rmp_ends.specs.FieldEnds.{fields_inside};
ghost use Rattle.rmp_ends.specs.LeafEnds.{number_inside, string_inside};
ghost use Rattle.rmp_ends.specs.RowEnds.{option_inside};
ghost use Rattle.rmp_round_trip.specs.AlikeData.{option_alike, text_alike};
ghost use Rattle.rmp_round_trip.specs.LeafRounds.{unsigned_row_16, string_row, text_other};
ghost use Rattle.rmp_round_trip.specs.OnlyFields.{field_only, fields_both, last_field};
ghost use Rattle.rmp_round_trip.specs.OnlyLeaves.{unsigned_only, string_only};
ghost use Rattle.rmp_round_trip.specs.OnlyRows.{lowers_then, option_only};
ghost use Rattle.rmp_round_trip.specs.RoundTrip.{Only};
ghost use Rattle.rmp_round_trip.specs.Rounds.{option_some, option_row};
ghost use Rattle.rmp_round_trip.specs.StructRounds.{structure_all, structure_row, structure_other, fields_none, fields_cons};
ghost use Rattle.std.proofs.Common.{refl};
ghost use Rattle.std.specs.Option.{is_none};
ghost use Rattle.std.specs.Prelude.{◌∷◌, [], None, codes, string_bytes};

use super::{First, Second};
use rmp_decode::{Deserialize, Deserializer};
use rmp_encode::{Serialize, Serializer};
use rmp_ends::EndsInside;
use rmp_round_trip::{NeverNil, RoundTrip};
use rmp_wire::config::SerializerConfig;
use rmp_wire::{ReadSlice, Sink};

impl Serialize for First {
    ghost data_of = { λ v human. structure_of ((codes "place", ⟦<String as Serialize>⟧.data_of v.place human)
        ∷ ((codes "level", ⟦<u16 as Serialize>⟧.data_of v.level human) ∷ [])) };

    ghost is_value = { λ v. ⟦<String as Serialize>⟧.is_value v.place × ⟦<u16 as Serialize>⟧.is_value v.level };

    ghost takes_memory = { λ s. one_of (⟦<String as Serialize>⟧.takes_memory s ∷ (⟦<u16 as Serialize>⟧.takes_memory s ∷ [])) };

    ghost refuses = { λ v. OfParts ⊥ (⟦<String as Serialize>⟧.refuses v.place ∷ (⟦<u16 as Serialize>⟧.refuses v.level ∷ [])) };

    fn serialize<W: Sink, C: SerializerConfig>(
        &self,
        se: &mut Serializer<W, C>,
    ) -> Result<(), rmp_encode::Error> {
        let parts = rmp_encode::Both {
            first: &self.place,
            second: &self.level,
        };
        se.serialize_fields("First", &["place", "level"], &parts)
    }

    #[tactic(auto, using(rmp_encode::proofs::Fields::structure_no_byte))]
    fn as_u8(&self, _human: bool) -> Option<u8> {
        None
    }
}

impl<'de, R: ReadSlice<'de>> Deserialize<'de, R> for First {
    ghost reads = { λ human lends m v. OfFields (codes "place" ∷ (codes "level" ∷ []))
        (Field (λ j. ⟦<String as Deserialize<'de, R>>⟧.reads human lends j v.place) (Absent ⟦<String as Deserialize<'de, R>>⟧.absent v.place)
        (Field (λ j. ⟦<u16 as Deserialize<'de, R>>⟧.reads human lends j v.level) (Absent ⟦<u16 as Deserialize<'de, R>>⟧.absent v.level) NoField)) m };

    ghost absent = { None };

    ghost refuses = { RefusesFields (codes "place" ∷ (codes "level" ∷ []))
        (is_none ⟦<String as Deserialize<'de, R>>⟧.absent ∷ (is_none ⟦<u16 as Deserialize<'de, R>>⟧.absent ∷ []))
        (part_of ⟦<String as Deserialize<'de, R>>⟧.reads ⟦<String as Deserialize<'de, R>>⟧.refuses
        ∷ (part_of ⟦<u16 as Deserialize<'de, R>>⟧.reads ⟦<u16 as Deserialize<'de, R>>⟧.refuses ∷ [])) };

    #[inline(always)]
    fn deserialize<C: SerializerConfig>(
        de: &mut Deserializer<R, C>,
    ) -> Result<First, rmp_decode::Error> {
        let read: Result<(String, (u16, ())), rmp_decode::Error> = rmp_decode::read_fields_2(
            de,
            &["place", "level"],
        );
        match read {
            Ok(parts) => {
                let (place, (level, ())) = parts;
                return Ok(First { place, level });
            }
            Err(e) => return Err(e),
        }
    }

    fn missing() -> Option<First> {
        None
    }
}

impl<'de, R: ReadSlice<'de>> RoundTrip<'de, R> for First {
    ghost has_data = { λ human v. structure_all ((codes "place", ⟦<String as Serialize>⟧.data_of v.place human)
        ∷ ((codes "level", ⟦<u16 as Serialize>⟧.data_of v.level human) ∷ [])) (refl, (refl, tt)) };

    ghost round = { λ lent s v fits. structure_row s (codes "place" ∷ (codes "level" ∷ [])) _ _ refl
        (fields_cons s (codes "place") _ _ _ (λ j. ⟦<String as Deserialize<'de, R>>⟧.reads s.human R.lends j v.place)
        (Absent ⟦<String as Deserialize<'de, R>>⟧.absent v.place) _ (string_row s (string_bytes v.place))
        (fields_cons s (codes "level") _ _ _ (λ j. ⟦<u16 as Deserialize<'de, R>>⟧.reads s.human R.lends j v.level)
        (Absent ⟦<u16 as Deserialize<'de, R>>⟧.absent v.level) _ (unsigned_row_16 s v.level fits.1) (fields_none s))) };

    ghost same = { λ v w. ⟦<String as RoundTrip<'de, R>>⟧.same v.place w.place × ⟦<u16 as RoundTrip<'de, R>>⟧.same v.level w.level };

    ghost alike = { λ human v w h i. structure_of ((codes "place", (text_alike (string_bytes v.place) (string_bytes w.place) h.0 i))
        ∷ ((codes "level", (⟦<u16 as Serialize>⟧.data_of (h.1 i) human)) ∷ [])) };

    ghost only = { λ s v fits. lowers_then s _ _ (λ m. (w : _) → (⟦<First as Deserialize<'de, R>>⟧.reads s.human R.lends) m w
        → ⟦<String as RoundTrip<'de, R>>⟧.same v.place w.place × ⟦<u16 as RoundTrip<'de, R>>⟧.same v.level w.level)
        (structure_row s (codes "place" ∷ (codes "level" ∷ [])) _ _ refl
        (fields_cons s (codes "place") _ _ _ (λ j. Only (⟦<String as Deserialize<'de, R>>⟧.reads s.human R.lends) ⟦<String as RoundTrip<'de, R>>⟧.same j
        v.place) ⊥ _ (string_only s (λ w. string_bytes w) (string_bytes v.place))
        (fields_cons s (codes "level") _ _ _ (λ j. Only (⟦<u16 as Deserialize<'de, R>>⟧.reads s.human R.lends) ⟦<u16 as RoundTrip<'de, R>>⟧.same j v.level)
        ⊥ _ (unsigned_only s 65535 v.level) (fields_none s))))
        (λ m q w r. fields_both (codes "place" ∷ (codes "level" ∷ [])) _ _ _ m q r
        (field_only (⟦<String as Deserialize<'de, R>>⟧.reads s.human R.lends) ⟦<String as RoundTrip<'de, R>>⟧.same v.place w.place _ _ _ _
        (last_field (⟦<u16 as Deserialize<'de, R>>⟧.reads s.human R.lends) ⟦<u16 as RoundTrip<'de, R>>⟧.same v.level w.level _))) };
}

impl NeverNil for First {
    ghost never_nil = { λ s v. structure_other s _ };
}

impl<'de, R: ReadSlice<'de>> EndsInside<'de, R> for First {
    ghost ends_inside = { fields_inside _ _ _ (string_inside, (number_inside, tt)) };
}

impl Serialize for Second {
    ghost data_of = { λ v human. structure_of ((codes "level", ⟦<u16 as Serialize>⟧.data_of v.level human)
        ∷ ((codes "note", ⟦<Option<String> as Serialize>⟧.data_of v.note human) ∷ ((codes "place", ⟦<String as Serialize>⟧.data_of v.place human) ∷ []))) };

    ghost is_value = { λ v. ⟦<u16 as Serialize>⟧.is_value v.level × ⟦<Option<String> as Serialize>⟧.is_value v.note
        × ⟦<String as Serialize>⟧.is_value v.place };

    ghost takes_memory = { λ s. one_of (⟦<u16 as Serialize>⟧.takes_memory s
        ∷ (⟦<Option<String> as Serialize>⟧.takes_memory s ∷ (⟦<String as Serialize>⟧.takes_memory s ∷ []))) };

    ghost refuses = { λ v. OfParts ⊥ (⟦<u16 as Serialize>⟧.refuses v.level
        ∷ (⟦<Option<String> as Serialize>⟧.refuses v.note ∷ (⟦<String as Serialize>⟧.refuses v.place ∷ []))) };

    fn serialize<W: Sink, C: SerializerConfig>(
        &self,
        se: &mut Serializer<W, C>,
    ) -> Result<(), rmp_encode::Error> {
        let parts = rmp_encode::Three {
            first: &self.level,
            second: &self.note,
            third: &self.place,
        };
        se.serialize_fields("Second", &["level", "note", "place"], &parts)
    }

    #[tactic(auto, using(rmp_encode::proofs::Fields::structure_no_byte))]
    fn as_u8(&self, _human: bool) -> Option<u8> {
        None
    }
}

impl<'de, R: ReadSlice<'de>> Deserialize<'de, R> for Second {
    ghost reads = { λ human lends m v. OfFields (codes "level" ∷ (codes "note" ∷ (codes "place" ∷ [])))
        (Field (λ j. ⟦<u16 as Deserialize<'de, R>>⟧.reads human lends j v.level) (Absent ⟦<u16 as Deserialize<'de, R>>⟧.absent v.level)
        (Field (λ j. ⟦<Option<String> as Deserialize<'de, R>>⟧.reads human lends j v.note) (Absent ⟦<Option<String> as Deserialize<'de, R>>⟧.absent v.note)
        (Field (λ j. ⟦<String as Deserialize<'de, R>>⟧.reads human lends j v.place) (Absent ⟦<String as Deserialize<'de, R>>⟧.absent v.place) NoField))) m };

    ghost absent = { None };

    ghost refuses = { RefusesFields (codes "level" ∷ (codes "note" ∷ (codes "place" ∷ [])))
        (is_none ⟦<u16 as Deserialize<'de, R>>⟧.absent ∷ (is_none ⟦<Option<String> as Deserialize<'de, R>>⟧.absent
        ∷ (is_none ⟦<String as Deserialize<'de, R>>⟧.absent ∷ [])))
        (part_of ⟦<u16 as Deserialize<'de, R>>⟧.reads ⟦<u16 as Deserialize<'de, R>>⟧.refuses
        ∷ (part_of ⟦<Option<String> as Deserialize<'de, R>>⟧.reads ⟦<Option<String> as Deserialize<'de, R>>⟧.refuses
        ∷ (part_of ⟦<String as Deserialize<'de, R>>⟧.reads ⟦<String as Deserialize<'de, R>>⟧.refuses ∷ []))) };

    #[inline(always)]
    fn deserialize<C: SerializerConfig>(
        de: &mut Deserializer<R, C>,
    ) -> Result<Second, rmp_decode::Error> {
        let read: Result<(u16, (Option<String>, (String, ()))), rmp_decode::Error> =
            rmp_decode::read_fields_3(de, &["level", "note", "place"]);
        match read {
            Ok(parts) => {
                let (level, (note, (place, ()))) = parts;
                return Ok(Second { level, note, place });
            }
            Err(e) => return Err(e),
        }
    }

    fn missing() -> Option<Second> {
        None
    }
}

impl<'de, R: ReadSlice<'de>> RoundTrip<'de, R> for Second {
    ghost has_data = { λ human v. structure_all ((codes "level", ⟦<u16 as Serialize>⟧.data_of v.level human)
        ∷ ((codes "note", ⟦<Option<String> as Serialize>⟧.data_of v.note human) ∷ ((codes "place", ⟦<String as Serialize>⟧.data_of v.place human) ∷ [])))
        (refl, ((option_some (λ x. ⟦<String as Serialize>⟧.data_of x human) (λ x1. refl) v.note), (refl, tt))) };

    ghost round = { λ lent s v fits. structure_row s (codes "level" ∷ (codes "note" ∷ (codes "place" ∷ []))) _ _ refl
        (fields_cons s (codes "level") _ _ _ (λ j. ⟦<u16 as Deserialize<'de, R>>⟧.reads s.human R.lends j v.level)
        (Absent ⟦<u16 as Deserialize<'de, R>>⟧.absent v.level) _ (unsigned_row_16 s v.level fits.0)
        (fields_cons s (codes "note") _ _ _ (λ j. ⟦<Option<String> as Deserialize<'de, R>>⟧.reads s.human R.lends j v.note)
        (Absent ⟦<Option<String> as Deserialize<'de, R>>⟧.absent v.note) _
        (option_row s (λ x. ⟦<String as Serialize>⟧.data_of x s.human) ⟦<String as Serialize>⟧.is_value
        (⟦<String as Deserialize<'de, R>>⟧.reads s.human R.lends) (λ x3. text_other s (string_bytes x3)) (λ x2 h2. (string_row s (string_bytes x2))) v.note
        fits.1) (fields_cons s (codes "place") _ _ _ (λ j. ⟦<String as Deserialize<'de, R>>⟧.reads s.human R.lends j v.place)
        (Absent ⟦<String as Deserialize<'de, R>>⟧.absent v.place) _ (string_row s (string_bytes v.place)) (fields_none s)))) };

    ghost same = { λ v w. ⟦<u16 as RoundTrip<'de, R>>⟧.same v.level w.level × ⟦<Option<String> as RoundTrip<'de, R>>⟧.same v.note w.note
        × ⟦<String as RoundTrip<'de, R>>⟧.same v.place w.place };

    ghost alike = { λ human v w h i. structure_of ((codes "level", (⟦<u16 as Serialize>⟧.data_of (h.0 i) human))
        ∷ ((
          codes "note",
          (option_alike ⟦<String as RoundTrip<'de, R>>⟧.same (λ x. ⟦<String as Serialize>⟧.data_of x human)
              (λ x3 yx3 h3 i. (text_alike (string_bytes x3) (string_bytes yx3) h3 i)) v.note w.note h.1 i),
        )
        ∷ ((codes "place", (text_alike (string_bytes v.place) (string_bytes w.place) h.2 i)) ∷ []))) };

    ghost only = { λ s v fits. lowers_then s _ _ (λ m. (w : _) → (⟦<Second as Deserialize<'de, R>>⟧.reads s.human R.lends) m w
        → ⟦<u16 as RoundTrip<'de, R>>⟧.same v.level w.level × ⟦<Option<String> as RoundTrip<'de, R>>⟧.same v.note w.note
        × ⟦<String as RoundTrip<'de, R>>⟧.same v.place w.place)
        (structure_row s (codes "level" ∷ (codes "note" ∷ (codes "place" ∷ []))) _ _ refl
        (fields_cons s (codes "level") _ _ _ (λ j. Only (⟦<u16 as Deserialize<'de, R>>⟧.reads s.human R.lends) ⟦<u16 as RoundTrip<'de, R>>⟧.same j v.level)
        ⊥ _ (unsigned_only s 65535 v.level) (fields_cons s (codes "note") _ _ _
        (λ j. Only (⟦<Option<String> as Deserialize<'de, R>>⟧.reads s.human R.lends) ⟦<Option<String> as RoundTrip<'de, R>>⟧.same j v.note) ⊥ _
        (option_only s _ (⟦<String as Deserialize<'de, R>>⟧.reads s.human R.lends) ⟦<String as RoundTrip<'de, R>>⟧.same v.note
        (option_row s (λ x. ⟦<String as Serialize>⟧.data_of x s.human) ⟦<String as Serialize>⟧.is_value
        (Only (⟦<String as Deserialize<'de, R>>⟧.reads s.human R.lends) ⟦<String as RoundTrip<'de, R>>⟧.same) (λ x2. text_other s (string_bytes x2))
        (λ x1 h1. (string_only s (λ w. string_bytes w) (string_bytes x1))) v.note fits.1))
        (fields_cons s (codes "place") _ _ _ (λ j. Only (⟦<String as Deserialize<'de, R>>⟧.reads s.human R.lends) ⟦<String as RoundTrip<'de, R>>⟧.same j
        v.place) ⊥ _ (string_only s (λ w. string_bytes w) (string_bytes v.place)) (fields_none s)))))
        (λ m q w r. fields_both (codes "level" ∷ (codes "note" ∷ (codes "place" ∷ []))) _ _ _ m q r
        (λ ks i j. let x = field_only (⟦<u16 as Deserialize<'de, R>>⟧.reads s.human R.lends) ⟦<u16 as RoundTrip<'de, R>>⟧.same v.level w.level _ _ _ _
        (field_only (⟦<Option<String> as Deserialize<'de, R>>⟧.reads s.human R.lends) ⟦<Option<String> as RoundTrip<'de, R>>⟧.same v.note w.note _ _ _ _
        (last_field (⟦<String as Deserialize<'de, R>>⟧.reads s.human R.lends) ⟦<String as RoundTrip<'de, R>>⟧.same v.place w.place _)) ks i j
        in (x.0, x.1.0, x.1.1))) };
}

impl NeverNil for Second {
    ghost never_nil = { λ s v. structure_other s _ };
}

impl<'de, R: ReadSlice<'de>> EndsInside<'de, R> for Second {
    ghost ends_inside = { fields_inside _ _ _ (number_inside, ((option_inside ⟦<String as Deserialize<'de, R>>⟧.refuses string_inside), (string_inside, tt))) };
}
