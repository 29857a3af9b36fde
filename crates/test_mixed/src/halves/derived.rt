//! How the types of halves.rt are written and read. Written by tools/derive.py.
//!
//! Sum of Buoy: 8ca61d78.
//! Sum of Light: 483c93b1.
//! Sum of Coast: 29815599.
ghost use Rattle.rmp_decode.specs.FieldRefusing.{RefusesFields};
ghost use Rattle.rmp_decode.specs.Fields.{OfFields, Field, Absent, NoField};
ghost use Rattle.rmp_decode.specs.Refusing.{part_of};
ghost use Rattle.rmp_decode.specs.Rows.{ReadsEach};
ghost use Rattle.rmp_encode.specs.Refusals.{OfParts};
ghost use Rattle.rmp_encode.specs.Sizes.{one_of};
ghost use Rattle.rmp_encode.specs.Trees.{structure_of};
ghost use Rattle.rmp_ends.specs.FieldEnds.{fields_inside};
ghost use Rattle.rmp_ends.specs.LeafEnds.{number_inside, string_inside};
ghost use Rattle.rmp_ends.specs.RowEnds.{each_inside, option_inside};
ghost use Rattle.rmp_round_trip.specs.AlikeData.{option_alike, slice_alike, text_alike};
ghost use Rattle.rmp_round_trip.specs.LeafRounds.{unsigned_row_16, string_row};
ghost use Rattle.rmp_round_trip.specs.OnlyFields.{field_only, fields_both, last_field};
ghost use Rattle.rmp_round_trip.specs.OnlyLeaves.{unsigned_only, string_only};
ghost use Rattle.rmp_round_trip.specs.OnlyRows.{list_only, lowers_then, option_only};
ghost use Rattle.rmp_round_trip.specs.RoundTrip.{Only};
ghost use Rattle.rmp_round_trip.specs.Rounds.{each_some, each_row, option_some, option_row, slice_some, slice_row};
ghost use Rattle.rmp_round_trip.specs.StructRounds.{structure_all, structure_row, structure_other, fields_none, fields_cons};
ghost use Rattle.std.proofs.Common.{refl};
ghost use Rattle.std.specs.Option.{is_none};
ghost use Rattle.std.specs.Prelude.{◌∷◌, [], None, codes, string_bytes};

use super::{Buoy, Coast, Light};
use rmp_decode::{Deserialize, Deserializer};
use rmp_encode::{Serialize, Serializer};
use rmp_ends::EndsInside;
use rmp_round_trip::{NeverNil, RoundTrip};
use rmp_wire::config::SerializerConfig;
use rmp_wire::{ReadSlice, Sink};

impl<'de, R: ReadSlice<'de>> Deserialize<'de, R> for Buoy {
    ghost reads = { λ human lends m v. OfFields (codes "name" ∷ (codes "depth" ∷ []))
        (Field (λ j. ⟦<String as Deserialize<'de, R>>⟧.reads human lends j v.name) (Absent ⟦<String as Deserialize<'de, R>>⟧.absent v.name)
        (Field (λ j. ⟦<u16 as Deserialize<'de, R>>⟧.reads human lends j v.depth) (Absent ⟦<u16 as Deserialize<'de, R>>⟧.absent v.depth) NoField)) m };

    ghost absent = { None };

    ghost refuses = { RefusesFields (codes "name" ∷ (codes "depth" ∷ []))
        (is_none ⟦<String as Deserialize<'de, R>>⟧.absent ∷ (is_none ⟦<u16 as Deserialize<'de, R>>⟧.absent ∷ []))
        (part_of ⟦<String as Deserialize<'de, R>>⟧.reads ⟦<String as Deserialize<'de, R>>⟧.refuses
        ∷ (part_of ⟦<u16 as Deserialize<'de, R>>⟧.reads ⟦<u16 as Deserialize<'de, R>>⟧.refuses ∷ [])) };

    #[inline(always)]
    fn deserialize<C: SerializerConfig>(
        de: &mut Deserializer<R, C>,
    ) -> Result<Buoy, rmp_decode::Error> {
        let read: Result<(String, (u16, ())), rmp_decode::Error> = rmp_decode::read_fields_2(
            de,
            &["name", "depth"],
        );
        match read {
            Ok(parts) => {
                let (name, (depth, ())) = parts;
                return Ok(Buoy { name, depth });
            }
            Err(e) => return Err(e),
        }
    }

    fn missing() -> Option<Buoy> {
        None
    }
}

impl<'de, R: ReadSlice<'de>> RoundTrip<'de, R> for Buoy {
    ghost has_data = { λ human v. structure_all ((codes "name", ⟦<String as Serialize>⟧.data_of v.name human)
        ∷ ((codes "depth", ⟦<u16 as Serialize>⟧.data_of v.depth human) ∷ [])) (refl, (refl, tt)) };

    ghost round = { λ lent s v fits. structure_row s (codes "name" ∷ (codes "depth" ∷ [])) _ _ refl
        (fields_cons s (codes "name") _ _ _ (λ j. ⟦<String as Deserialize<'de, R>>⟧.reads s.human R.lends j v.name)
        (Absent ⟦<String as Deserialize<'de, R>>⟧.absent v.name) _ (string_row s (string_bytes v.name))
        (fields_cons s (codes "depth") _ _ _ (λ j. ⟦<u16 as Deserialize<'de, R>>⟧.reads s.human R.lends j v.depth)
        (Absent ⟦<u16 as Deserialize<'de, R>>⟧.absent v.depth) _ (unsigned_row_16 s v.depth fits.1) (fields_none s))) };

    ghost same = { λ v w. ⟦<String as RoundTrip<'de, R>>⟧.same v.name w.name × ⟦<u16 as RoundTrip<'de, R>>⟧.same v.depth w.depth };

    ghost alike = { λ human v w h i. structure_of ((codes "name", (text_alike (string_bytes v.name) (string_bytes w.name) h.0 i))
        ∷ ((codes "depth", (⟦<u16 as Serialize>⟧.data_of (h.1 i) human)) ∷ [])) };

    ghost only = { λ s v fits. lowers_then s _ _ (λ m. (w : _) → (⟦<Buoy as Deserialize<'de, R>>⟧.reads s.human R.lends) m w
        → ⟦<String as RoundTrip<'de, R>>⟧.same v.name w.name × ⟦<u16 as RoundTrip<'de, R>>⟧.same v.depth w.depth)
        (structure_row s (codes "name" ∷ (codes "depth" ∷ [])) _ _ refl
        (fields_cons s (codes "name") _ _ _ (λ j. Only (⟦<String as Deserialize<'de, R>>⟧.reads s.human R.lends) ⟦<String as RoundTrip<'de, R>>⟧.same j
        v.name) ⊥ _ (string_only s (λ w. string_bytes w) (string_bytes v.name))
        (fields_cons s (codes "depth") _ _ _ (λ j. Only (⟦<u16 as Deserialize<'de, R>>⟧.reads s.human R.lends) ⟦<u16 as RoundTrip<'de, R>>⟧.same j v.depth)
        ⊥ _ (unsigned_only s 65535 v.depth) (fields_none s))))
        (λ m q w r. fields_both (codes "name" ∷ (codes "depth" ∷ [])) _ _ _ m q r
        (field_only (⟦<String as Deserialize<'de, R>>⟧.reads s.human R.lends) ⟦<String as RoundTrip<'de, R>>⟧.same v.name w.name _ _ _ _
        (last_field (⟦<u16 as Deserialize<'de, R>>⟧.reads s.human R.lends) ⟦<u16 as RoundTrip<'de, R>>⟧.same v.depth w.depth _))) };
}

impl NeverNil for Buoy {
    ghost never_nil = { λ s v. structure_other s _ };
}

impl<'de, R: ReadSlice<'de>> EndsInside<'de, R> for Buoy {
    ghost ends_inside = { fields_inside _ _ _ (string_inside, (number_inside, tt)) };
}

impl Serialize for Light {
    ghost data_of = { λ v human. structure_of ((codes "name", ⟦<String as Serialize>⟧.data_of v.name human)
        ∷ ((codes "height", ⟦<u16 as Serialize>⟧.data_of v.height human) ∷ [])) };

    ghost is_value = { λ v. ⟦<String as Serialize>⟧.is_value v.name × ⟦<u16 as Serialize>⟧.is_value v.height };

    ghost takes_memory = { λ s. one_of (⟦<String as Serialize>⟧.takes_memory s ∷ (⟦<u16 as Serialize>⟧.takes_memory s ∷ [])) };

    ghost refuses = { λ v. OfParts ⊥ (⟦<String as Serialize>⟧.refuses v.name ∷ (⟦<u16 as Serialize>⟧.refuses v.height ∷ [])) };

    fn serialize<W: Sink, C: SerializerConfig>(
        &self,
        se: &mut Serializer<W, C>,
    ) -> Result<(), rmp_encode::Error> {
        let parts = rmp_encode::Both {
            first: &self.name,
            second: &self.height,
        };
        se.serialize_fields("Light", &["name", "height"], &parts)
    }

    #[tactic(auto, using(rmp_encode::proofs::Fields::structure_no_byte))]
    fn as_u8(&self, _human: bool) -> Option<u8> {
        None
    }
}

impl<'de, R: ReadSlice<'de>> RoundTrip<'de, R> for Light {
    ghost has_data = { λ human v. structure_all ((codes "name", ⟦<String as Serialize>⟧.data_of v.name human)
        ∷ ((codes "height", ⟦<u16 as Serialize>⟧.data_of v.height human) ∷ [])) (refl, (refl, tt)) };

    ghost round = { λ lent s v fits. structure_row s (codes "name" ∷ (codes "height" ∷ [])) _ _ refl
        (fields_cons s (codes "name") _ _ _ (λ j. ⟦<String as Deserialize<'de, R>>⟧.reads s.human R.lends j v.name)
        (Absent ⟦<String as Deserialize<'de, R>>⟧.absent v.name) _ (string_row s (string_bytes v.name))
        (fields_cons s (codes "height") _ _ _ (λ j. ⟦<u16 as Deserialize<'de, R>>⟧.reads s.human R.lends j v.height)
        (Absent ⟦<u16 as Deserialize<'de, R>>⟧.absent v.height) _ (unsigned_row_16 s v.height fits.1) (fields_none s))) };

    ghost same = { λ v w. ⟦<String as RoundTrip<'de, R>>⟧.same v.name w.name × ⟦<u16 as RoundTrip<'de, R>>⟧.same v.height w.height };

    ghost alike = { λ human v w h i. structure_of ((codes "name", (text_alike (string_bytes v.name) (string_bytes w.name) h.0 i))
        ∷ ((codes "height", (⟦<u16 as Serialize>⟧.data_of (h.1 i) human)) ∷ [])) };

    ghost only = { λ s v fits. lowers_then s _ _ (λ m. (w : _) → (⟦<Light as Deserialize<'de, R>>⟧.reads s.human R.lends) m w
        → ⟦<String as RoundTrip<'de, R>>⟧.same v.name w.name × ⟦<u16 as RoundTrip<'de, R>>⟧.same v.height w.height)
        (structure_row s (codes "name" ∷ (codes "height" ∷ [])) _ _ refl
        (fields_cons s (codes "name") _ _ _ (λ j. Only (⟦<String as Deserialize<'de, R>>⟧.reads s.human R.lends) ⟦<String as RoundTrip<'de, R>>⟧.same j
        v.name) ⊥ _ (string_only s (λ w. string_bytes w) (string_bytes v.name))
        (fields_cons s (codes "height") _ _ _ (λ j. Only (⟦<u16 as Deserialize<'de, R>>⟧.reads s.human R.lends) ⟦<u16 as RoundTrip<'de, R>>⟧.same j
        v.height) ⊥ _ (unsigned_only s 65535 v.height) (fields_none s))))
        (λ m q w r. fields_both (codes "name" ∷ (codes "height" ∷ [])) _ _ _ m q r
        (field_only (⟦<String as Deserialize<'de, R>>⟧.reads s.human R.lends) ⟦<String as RoundTrip<'de, R>>⟧.same v.name w.name _ _ _ _
        (last_field (⟦<u16 as Deserialize<'de, R>>⟧.reads s.human R.lends) ⟦<u16 as RoundTrip<'de, R>>⟧.same v.height w.height _))) };
}

impl NeverNil for Light {
    ghost never_nil = { λ s v. structure_other s _ };
}

impl Serialize for Coast {
    ghost data_of = { λ v human. structure_of ((codes "buoys", ⟦<Vec<Buoy> as Serialize>⟧.data_of v.buoys human)
        ∷ ((codes "light", ⟦<Option<Light> as Serialize>⟧.data_of v.light human) ∷ [])) };

    ghost is_value = { λ v. ⟦<Vec<Buoy> as Serialize>⟧.is_value v.buoys × ⟦<Option<Light> as Serialize>⟧.is_value v.light };

    ghost takes_memory = { λ s. one_of (⟦<Vec<Buoy> as Serialize>⟧.takes_memory s ∷ (⟦<Option<Light> as Serialize>⟧.takes_memory s ∷ [])) };

    ghost refuses = { λ v. OfParts ⊥ (⟦<Vec<Buoy> as Serialize>⟧.refuses v.buoys ∷ (⟦<Option<Light> as Serialize>⟧.refuses v.light ∷ [])) };

    fn serialize<W: Sink, C: SerializerConfig>(
        &self,
        se: &mut Serializer<W, C>,
    ) -> Result<(), rmp_encode::Error> {
        let parts = rmp_encode::Both {
            first: &self.buoys,
            second: &self.light,
        };
        se.serialize_fields("Coast", &["buoys", "light"], &parts)
    }

    #[tactic(auto, using(rmp_encode::proofs::Fields::structure_no_byte))]
    fn as_u8(&self, _human: bool) -> Option<u8> {
        None
    }
}

impl<'de, R: ReadSlice<'de>> Deserialize<'de, R> for Coast {
    ghost reads = { λ human lends m v. OfFields (codes "buoys" ∷ (codes "light" ∷ []))
        (Field (λ j. ⟦<Vec<Buoy> as Deserialize<'de, R>>⟧.reads human lends j v.buoys) (Absent ⟦<Vec<Buoy> as Deserialize<'de, R>>⟧.absent v.buoys)
        (Field (λ j. ⟦<Option<Light> as Deserialize<'de, R>>⟧.reads human lends j v.light) (Absent ⟦<Option<Light> as Deserialize<'de, R>>⟧.absent v.light)
        NoField)) m };

    ghost absent = { None };

    ghost refuses = { RefusesFields (codes "buoys" ∷ (codes "light" ∷ []))
        (is_none ⟦<Vec<Buoy> as Deserialize<'de, R>>⟧.absent ∷ (is_none ⟦<Option<Light> as Deserialize<'de, R>>⟧.absent ∷ []))
        (part_of ⟦<Vec<Buoy> as Deserialize<'de, R>>⟧.reads ⟦<Vec<Buoy> as Deserialize<'de, R>>⟧.refuses
        ∷ (part_of ⟦<Option<Light> as Deserialize<'de, R>>⟧.reads ⟦<Option<Light> as Deserialize<'de, R>>⟧.refuses ∷ [])) };

    #[inline(always)]
    fn deserialize<C: SerializerConfig>(
        de: &mut Deserializer<R, C>,
    ) -> Result<Coast, rmp_decode::Error> {
        let read: Result<(Vec<Buoy>, (Option<Light>, ())), rmp_decode::Error> =
            rmp_decode::read_fields_2(de, &["buoys", "light"]);
        match read {
            Ok(parts) => {
                let (buoys, (light, ())) = parts;
                return Ok(Coast { buoys, light });
            }
            Err(e) => return Err(e),
        }
    }

    fn missing() -> Option<Coast> {
        None
    }
}

impl<'de, R: ReadSlice<'de>> RoundTrip<'de, R> for Coast {
    ghost use Rattle.test_mixed.specs.contracts.halves.derived.BuoyRoundTrip.TheImpl.Laws as buoy_rounds;
    ghost use Rattle.test_mixed.specs.contracts.halves.derived.LightNeverNil.TheImpl.Laws as light_other;
    ghost use Rattle.test_mixed.specs.contracts.halves.derived.LightRoundTrip.TheImpl.Laws as light_rounds;
    ghost use mir.Syntax.{given};

    ghost has_data = { λ human v. structure_all ((codes "buoys", ⟦<Vec<Buoy> as Serialize>⟧.data_of v.buoys human)
        ∷ ((codes "light", ⟦<Option<Light> as Serialize>⟧.data_of v.light human) ∷ [])) (
          (slice_some _ (each_some (λ x. ⟦<Buoy as Serialize>⟧.data_of x human)
              (λ x1. (buoy_rounds.has_data-law R.row R.ReadSlice.own (given 0) R.Source (given 0) human x1)) v.buoys.items)),
          (
            (option_some (λ x. ⟦<Light as Serialize>⟧.data_of x human)
                (λ x3. (light_rounds.has_data-law R.row R.ReadSlice.own (given 0) R.Source (given 0) human x3)) v.light),
            tt,
          ),
        ) };

    ghost round = { λ lent s v fits. structure_row s (codes "buoys" ∷ (codes "light" ∷ [])) _ _ refl
        (fields_cons s (codes "buoys") _ _ _ (λ j. ⟦<Vec<Buoy> as Deserialize<'de, R>>⟧.reads s.human R.lends j v.buoys)
        (Absent ⟦<Vec<Buoy> as Deserialize<'de, R>>⟧.absent v.buoys) _
        (slice_row s _ (λ ms. ReadsEach (⟦<Buoy as Deserialize<'de, R>>⟧.reads s.human R.lends) ms v.buoys.items)
        (each_row s (λ x. ⟦<Buoy as Serialize>⟧.data_of x s.human) ⟦<Buoy as Serialize>⟧.is_value (⟦<Buoy as Deserialize<'de, R>>⟧.reads s.human R.lends)
        (λ x5 h5. (buoy_rounds.round-law R.row R.ReadSlice.own (given 0) R.Source (given 0) (λ e. cc) s x5 h5)) v.buoys.items fits.0))
        (fields_cons s (codes "light") _ _ _ (λ j. ⟦<Option<Light> as Deserialize<'de, R>>⟧.reads s.human R.lends j v.light)
        (Absent ⟦<Option<Light> as Deserialize<'de, R>>⟧.absent v.light) _
        (option_row s (λ x. ⟦<Light as Serialize>⟧.data_of x s.human) ⟦<Light as Serialize>⟧.is_value
        (⟦<Light as Deserialize<'de, R>>⟧.reads s.human R.lends) (λ x7. light_other.never_nil-law s x7)
        (λ x6 h6. (light_rounds.round-law R.row R.ReadSlice.own (given 0) R.Source (given 0) (λ e. cc) s x6 h6)) v.light fits.1) (fields_none s))) };

    ghost same = { λ v w. ⟦<Vec<Buoy> as RoundTrip<'de, R>>⟧.same v.buoys w.buoys × ⟦<Option<Light> as RoundTrip<'de, R>>⟧.same v.light w.light };

    ghost alike = { λ human v w h i. structure_of ((
      codes "buoys",
      (slice_alike ⟦<Buoy as RoundTrip<'de, R>>⟧.same (λ x. ⟦<Buoy as Serialize>⟧.data_of x human)
          (λ x4 yx4 h4 i. (buoy_rounds.alike-law R.row R.ReadSlice.own (given 0) R.Source (given 0) human x4 yx4 h4 i)) v.buoys.items w.buoys.items h.0 i),
    )
        ∷ ((
          codes "light",
          (option_alike ⟦<Light as RoundTrip<'de, R>>⟧.same (λ x. ⟦<Light as Serialize>⟧.data_of x human)
              (λ x5 yx5 h5 i. (light_rounds.alike-law R.row R.ReadSlice.own (given 0) R.Source (given 0) human x5 yx5 h5 i)) v.light w.light h.1 i),
        ) ∷ [])) };

    ghost only = { λ s v fits. lowers_then s _ _ (λ m. (w : _) → (⟦<Coast as Deserialize<'de, R>>⟧.reads s.human R.lends) m w
        → ⟦<Vec<Buoy> as RoundTrip<'de, R>>⟧.same v.buoys w.buoys × ⟦<Option<Light> as RoundTrip<'de, R>>⟧.same v.light w.light)
        (structure_row s (codes "buoys" ∷ (codes "light" ∷ [])) _ _ refl
        (fields_cons s (codes "buoys") _ _ _ (λ j. Only (⟦<Vec<Buoy> as Deserialize<'de, R>>⟧.reads s.human R.lends) ⟦<Vec<Buoy> as RoundTrip<'de, R>>⟧.same
        j v.buoys) ⊥ _ (list_only s _ (λ w. w.items) (⟦<Buoy as Deserialize<'de, R>>⟧.reads s.human R.lends) ⟦<Buoy as RoundTrip<'de, R>>⟧.same
        v.buoys.items (slice_row s _ (λ ms. ReadsEach (Only (⟦<Buoy as Deserialize<'de, R>>⟧.reads s.human R.lends) ⟦<Buoy as RoundTrip<'de, R>>⟧.same) ms
        v.buoys.items) (each_row s (λ x. ⟦<Buoy as Serialize>⟧.data_of x s.human) ⟦<Buoy as Serialize>⟧.is_value
        (Only (⟦<Buoy as Deserialize<'de, R>>⟧.reads s.human R.lends) ⟦<Buoy as RoundTrip<'de, R>>⟧.same)
        (λ x1 h1. (buoy_rounds.only-law R.row R.ReadSlice.own (given 0) R.Source (given 0) s x1 h1)) v.buoys.items fits.0)))
        (fields_cons s (codes "light") _ _ _ (λ j. Only (⟦<Option<Light> as Deserialize<'de, R>>⟧.reads s.human R.lends)
        ⟦<Option<Light> as RoundTrip<'de, R>>⟧.same j v.light) ⊥ _
        (option_only s _ (⟦<Light as Deserialize<'de, R>>⟧.reads s.human R.lends) ⟦<Light as RoundTrip<'de, R>>⟧.same v.light
        (option_row s (λ x. ⟦<Light as Serialize>⟧.data_of x s.human) ⟦<Light as Serialize>⟧.is_value
        (Only (⟦<Light as Deserialize<'de, R>>⟧.reads s.human R.lends) ⟦<Light as RoundTrip<'de, R>>⟧.same) (λ x3. light_other.never_nil-law s x3)
        (λ x2 h2. (light_rounds.only-law R.row R.ReadSlice.own (given 0) R.Source (given 0) s x2 h2)) v.light fits.1)) (fields_none s))))
        (λ m q w r. fields_both (codes "buoys" ∷ (codes "light" ∷ [])) _ _ _ m q r
        (field_only (⟦<Vec<Buoy> as Deserialize<'de, R>>⟧.reads s.human R.lends) ⟦<Vec<Buoy> as RoundTrip<'de, R>>⟧.same v.buoys w.buoys _ _ _ _
        (last_field (⟦<Option<Light> as Deserialize<'de, R>>⟧.reads s.human R.lends) ⟦<Option<Light> as RoundTrip<'de, R>>⟧.same v.light w.light _))) };
}

impl NeverNil for Coast {
    ghost never_nil = { λ s v. structure_other s _ };
}

impl<'de, R: ReadSlice<'de>> EndsInside<'de, R> for Coast {
    ghost use Rattle.test_mixed.specs.contracts.halves.derived.BuoyEndsInside.TheImpl.Laws as buoy_ends;
    ghost use Rattle.test_mixed.specs.contracts.halves.LightEndsInside.TheImpl.Laws as light_ends;
    ghost use mir.Syntax.{given};

    ghost ends_inside = { fields_inside _ _ _ (
      (each_inside ⟦<Buoy as Deserialize<'de, R>>⟧.reads ⟦<Buoy as Deserialize<'de, R>>⟧.refuses
          (buoy_ends.ends_inside-law R.row R.ReadSlice.own (given 0) R.Source (given 0))),
      ((option_inside ⟦<Light as Deserialize<'de, R>>⟧.refuses (light_ends.ends_inside-law R.row R.ReadSlice.own (given 0) R.Source (given 0))), tt),
    ) };
}
