//! How the types of defaults.rt are written and read. Written by tools/derive.py.
//!
//! Sum of Level: 155669f7.
//! Sum of Server: d404a2fd.
//! Sum of Proxy: 415e7a0c.
//! Sum of Lists: adcdcdb8.
//! Sum of Page: ef994216.
//! Sum of Once: 7008c194.
ghost use Rattle.rmp_decode.specs.Arrays.{Exactly};
ghost use Rattle.rmp_decode.specs.EnumRefusing.{RefusesEnum, no_content};
ghost use Rattle.rmp_decode.specs.FieldRefusing.{RefusesFields};
ghost use Rattle.rmp_decode.specs.Fields.{OfFields, Field, Absent, NoField};
ghost use Rattle.rmp_decode.specs.Refusing.{RefusesBoxed, part_of};
ghost use Rattle.rmp_decode.specs.Rows.{ReadsEach};
ghost use Rattle.rmp_decode.specs.Variants.{OfVariant, Case, NoCase, Bare};
ghost use Rattle.rmp_encode.specs.Data.{unit_variant};
ghost use Rattle.rmp_encode.specs.Refusals.{OfParts, OfSink};
ghost use Rattle.rmp_encode.specs.Sizes.{one_of};
ghost use Rattle.rmp_encode.specs.Trees.{structure_of, tuple_of};
ghost use Rattle.rmp_ends.specs.BufferEnds.{buffer_inside};
ghost use Rattle.rmp_ends.specs.EnumEnds.{enum_inside, no_content_inside};
ghost use Rattle.rmp_ends.specs.FieldEnds.{fields_inside};
ghost use Rattle.rmp_ends.specs.LeafEnds.{kind_inside, number_inside, char_inside, string_inside};
ghost use Rattle.rmp_ends.specs.MapEnds.{map_inside};
ghost use Rattle.rmp_ends.specs.RowEnds.{array_inside, box_inside, each_inside, option_inside, tuple_inside};
ghost use Rattle.rmp_round_trip.specs.AlikeData.{array_alike, bytes_alike, float64_alike, mapping_alike, option_alike};
ghost use Rattle.rmp_round_trip.specs.AlikeData.{sequence_alike, slice_alike, text_alike, variant_alike};
ghost use Rattle.rmp_round_trip.specs.AlikeOrder.{tied};
ghost use Rattle.rmp_round_trip.specs.LeafRounds.{byte_row, unsigned_row_16, unsigned_row_32, unsigned_row_64, signed_row_8, signed_row_32};
ghost use Rattle.rmp_round_trip.specs.LeafRounds.{float64_row, char_row, string_row, buffer_row, byte_other, text_other};
ghost use Rattle.rmp_round_trip.specs.MapRounds.{mapping_some, map_row, pairs_row, set_row};
ghost use Rattle.rmp_round_trip.specs.OnlyFields.{AtPlace, AnyContent, field_only, fields_both, last_field, variant_both};
ghost use Rattle.rmp_round_trip.specs.OnlyLeaves.{byte_only, unsigned_only, signed_only, float64_only, char_only, string_only, buffer_only};
ghost use Rattle.rmp_round_trip.specs.OnlyMaps.{entries_only, set_only};
ghost use Rattle.rmp_round_trip.specs.OnlyRows.{array_only, item_only, last_only, list_only, lowers_then, option_only, row_both};
ghost use Rattle.rmp_round_trip.specs.RoundTrip.{Only};
ghost use Rattle.rmp_round_trip.specs.Rounds.{each_some, each_row, rows_map, option_some, option_row, slice_some, slice_row};
ghost use Rattle.rmp_round_trip.specs.Rounds.{tuple_some, tuple_row, sequence_some, sequence_row, rows_none, rows_cons};
ghost use Rattle.rmp_round_trip.specs.StructRounds.{tuple_all, structure_all, structure_row, structure_other, fields_none, fields_cons};
ghost use Rattle.rmp_round_trip.specs.VariantRounds.{bare_row, bare_other};
ghost use Rattle.rmp_wire.specs.Types.{buffer_bytes};
ghost use Rattle.std.proofs.Common.{refl, rules};
ghost use Rattle.std.proofs.lemmas.Cmp.{on_total, nat_list_cmp_total};
ghost use Rattle.std.specs.Cmp.Lexicographic.{slice_cmp};
ghost use Rattle.std.specs.Cmp.Rules.{comparing};
ghost use Rattle.std.specs.Option.{is_none};
ghost use Rattle.std.specs.Ordering.{nat_cmp};
ghost use Rattle.std.specs.Prelude.{◌≡◌, ◌∷◌, [], None, Some, codes, false, ⊤, IfOk, MatchOption, string_bytes, pos, negsuc};
ghost use Rattle.test_derived.specs.declared.defaults.Level.TheVariants as the_level;
ghost use Rattle.test_derived.specs.declared.defaults.TheConstants.{CORNER, NAME, PLAIN, TRIES};

use super::{
    BTreeMap, BTreeSet, ByteBuf, CORNER, F64Bits, Level, Lists, NAME, Once, PLAIN, Page, Proxy,
    Server, TRIES,
};
use rmp_decode::{Defaulted, Deserialize, Deserializer, ReadFields};
use rmp_encode::{Serialize, Serializer};
use rmp_ends::EndsInside;
use rmp_round_trip::{NeverNil, RoundTrip};
use rmp_wire::config::SerializerConfig;
use rmp_wire::{ReadSlice, Sink};

impl Serialize for Level {
    ghost data_of = { λ v human. elim v [ the_level.Quiet ↦ Some (unit_variant (codes "Quiet")) | the_level.Loud ↦ Some (unit_variant (codes "Loud")) ] };

    ghost is_value = { λ v. elim v [ the_level.Quiet ↦ ⊤ | the_level.Loud ↦ ⊤ ] };

    ghost takes_memory = { λ s. false };

    ghost refuses = { λ v. OfSink };

    #[tactic(auto, unfolding(rmp_encode::specs::Data::lower))]
    fn serialize<W: Sink, C: SerializerConfig>(
        &self,
        se: &mut Serializer<W, C>,
    ) -> Result<(), rmp_encode::Error> {
        match self {
            Level::Quiet => se.serialize_unit_variant("Level", 0, "Quiet"),
            Level::Loud => se.serialize_unit_variant("Level", 1, "Loud"),
        }
    }

    fn as_u8(&self, _human: bool) -> Option<u8> {
        None
    }
}

impl<'de, R: ReadSlice<'de>> Deserialize<'de, R> for Level {
    ghost reads = { λ human lends m v. OfVariant (codes "Quiet" ∷ (codes "Loud" ∷ []))
        (Case (λ c. (v ≡ the_level.Quiet) × Bare c) (Case (λ c. (v ≡ the_level.Loud) × Bare c) NoCase)) m };

    ghost absent = { None };

    ghost refuses = { RefusesEnum (codes "Quiet" ∷ (codes "Loud" ∷ [])) (no_content ∷ (no_content ∷ [])) };

    fn deserialize<C: SerializerConfig>(
        de: &mut Deserializer<R, C>,
    ) -> Result<Level, rmp_decode::Error> {
        match de.deserialize_enum(&["Quiet", "Loud"]) {
            Ok((0, variant)) => match variant.unit_variant() {
                Ok(()) => return Ok(Level::Quiet),
                Err(e) => return Err(e),
            },
            Ok((_, variant)) => match variant.unit_variant() {
                Ok(()) => return Ok(Level::Loud),
                Err(e) => return Err(e),
            },
            Err(e) => return Err(e),
        }
    }

    fn missing() -> Option<Level> {
        None
    }
}

impl<'de, R: ReadSlice<'de>> RoundTrip<'de, R> for Level {
    ghost has_data = { λ human. elim [ the_level.Quiet ↦ refl | the_level.Loud ↦ refl ] };

    ghost round = { λ lent s. let names = codes "Quiet" ∷ (codes "Loud" ∷ [])
        in elim [
          | the_level.Quiet ↦ λ fits. bare_row s names (codes "Quiet") 0 refl _ (refl, tt)
          | the_level.Loud ↦ λ fits. bare_row s names (codes "Loud")
              1 refl _ (refl, tt)
        ] };

    ghost same = { λ v w. elim v [ the_level.Quiet ↦ (w ≡ the_level.Quiet) | the_level.Loud ↦ (w ≡ the_level.Loud) ] };

    ghost alike = { λ human. elim [
      | the_level.Quiet ↦ λ w h. variant_alike (λ x. ⟦<Level as Serialize>⟧.data_of x human) w the_level.Quiet h
          (λ i. Some (unit_variant (codes "Quiet")))
      | the_level.Loud ↦ λ w h. variant_alike (λ x. ⟦<Level as Serialize>⟧.data_of x human) w the_level.Loud h
          (λ i. Some (unit_variant (codes "Loud")))
    ] };

    ghost only = { λ s. let names = codes "Quiet" ∷ (codes "Loud" ∷ [])
        in elim [
          | the_level.Quiet ↦ λ fits. lowers_then s (Some (unit_variant (codes "Quiet"))) (OfVariant names (AtPlace 0 AnyContent)) (λ m. (w : _)
              → (⟦<Level as Deserialize<'de, R>>⟧.reads s.human R.lends) m w
              → (w ≡ the_level.Quiet)) (bare_row s names (codes "Quiet") 0 refl (AtPlace 0 AnyContent) (refl, tt))
              (λ m q w r. variant_both names 0 AnyContent _ _ m q r (λ c a b. b.0))
          | the_level.Loud ↦ λ fits. lowers_then s (Some (unit_variant (codes "Loud")))
              (OfVariant names (AtPlace 1 AnyContent)) (λ m. (w : _) → (⟦<Level as Deserialize<'de, R>>⟧.reads s.human R.lends) m w
              → (w ≡ the_level.Loud)) (bare_row s names (codes "Loud") 1 refl (AtPlace 1 AnyContent) (refl, tt))
              (λ m q w r. variant_both names 1 AnyContent _ _ m q r (λ c a b. b.0))
        ] };
}

impl NeverNil for Level {
    ghost never_nil = { λ s. elim [ the_level.Quiet ↦ bare_other s (codes "Quiet") | the_level.Loud ↦ bare_other s (codes "Loud") ] };
}

impl<'de, R: ReadSlice<'de>> EndsInside<'de, R> for Level {
    ghost ends_inside = { enum_inside _ _ (no_content_inside, (no_content_inside, tt)) };
}

impl Serialize for Server {
    ghost data_of = { λ v human. structure_of ((codes "host", ⟦<String as Serialize>⟧.data_of v.host human)
        ∷ ((codes "port", ⟦<u16 as Serialize>⟧.data_of v.port human)
        ∷ ((codes "tries", ⟦<i32 as Serialize>⟧.data_of v.tries human)
        ∷ ((codes "shift", ⟦<i8 as Serialize>⟧.data_of v.shift human)
        ∷ ((codes "note", ⟦<Option<String> as Serialize>⟧.data_of v.note human)
        ∷ ((codes "sign", ⟦<char as Serialize>⟧.data_of v.sign human)
        ∷ ((codes "corner", ⟦<(u16, u16) as Serialize>⟧.data_of v.corner human)
        ∷ ((codes "level", ⟦<Level as Serialize>⟧.data_of v.level human) ∷ [])))))))) };

    ghost is_value = { λ v. ⟦<String as Serialize>⟧.is_value v.host × ⟦<u16 as Serialize>⟧.is_value v.port × ⟦<i32 as Serialize>⟧.is_value v.tries
        × ⟦<i8 as Serialize>⟧.is_value v.shift × ⟦<Option<String> as Serialize>⟧.is_value v.note × ⟦<char as Serialize>⟧.is_value v.sign
        × ⟦<(u16, u16) as Serialize>⟧.is_value v.corner × ⟦<Level as Serialize>⟧.is_value v.level };

    ghost takes_memory = { λ s. one_of (⟦<String as Serialize>⟧.takes_memory s
        ∷ (⟦<u16 as Serialize>⟧.takes_memory s ∷ (⟦<i32 as Serialize>⟧.takes_memory s
        ∷ (⟦<i8 as Serialize>⟧.takes_memory s ∷ (⟦<Option<String> as Serialize>⟧.takes_memory s
        ∷ (⟦<char as Serialize>⟧.takes_memory s ∷ (⟦<(u16, u16) as Serialize>⟧.takes_memory s ∷ (⟦<Level as Serialize>⟧.takes_memory s ∷ [])))))))) };

    ghost refuses = { λ v. OfParts ⊥ (⟦<String as Serialize>⟧.refuses v.host
        ∷ (⟦<u16 as Serialize>⟧.refuses v.port ∷ (⟦<i32 as Serialize>⟧.refuses v.tries
        ∷ (⟦<i8 as Serialize>⟧.refuses v.shift ∷ (⟦<Option<String> as Serialize>⟧.refuses v.note
        ∷ (⟦<char as Serialize>⟧.refuses v.sign ∷ (⟦<(u16, u16) as Serialize>⟧.refuses v.corner ∷ (⟦<Level as Serialize>⟧.refuses v.level ∷ [])))))))) };

    fn serialize<W: Sink, C: SerializerConfig>(
        &self,
        se: &mut Serializer<W, C>,
    ) -> Result<(), rmp_encode::Error> {
        let parts = rmp_encode::Eight {
            first: &self.host,
            second: &self.port,
            third: &self.tries,
            fourth: &self.shift,
            fifth: &self.note,
            sixth: &self.sign,
            seventh: &self.corner,
            eighth: &self.level,
        };
        se.serialize_fields(
            "Server",
            &[
                "host", "port", "tries", "shift", "note", "sign", "corner", "level",
            ],
            &parts,
        )
    }

    #[tactic(auto, using(rmp_encode::proofs::Fields::structure_no_byte))]
    fn as_u8(&self, _human: bool) -> Option<u8> {
        None
    }
}

impl<'de, R: ReadSlice<'de>> Deserialize<'de, R> for Server {
    ghost reads = { λ human lends m v. OfFields (codes "host"
        ∷ (codes "port" ∷ (codes "tries" ∷ (codes "shift" ∷ (codes "note" ∷ (codes "sign" ∷ (codes "corner" ∷ (codes "level" ∷ []))))))))
        (Field (λ j. ⟦<String as Deserialize<'de, R>>⟧.reads human lends j v.host) (Absent ⟦<String as Deserialize<'de, R>>⟧.absent v.host)
        (Field (λ j. ⟦<u16 as Deserialize<'de, R>>⟧.reads human lends j v.port) (v.port ≡ 8080)
        (Field (λ j. ⟦<i32 as Deserialize<'de, R>>⟧.reads human lends j v.tries) (v.tries ≡ TRIES)
        (Field (λ j. ⟦<i8 as Deserialize<'de, R>>⟧.reads human lends j v.shift) (v.shift ≡ pos 0)
        (Field (λ j. ⟦<Option<String> as Deserialize<'de, R>>⟧.reads human lends j v.note) (Absent ⟦<Option<String> as Deserialize<'de, R>>⟧.absent v.note)
        (Field (λ j. ⟦<char as Deserialize<'de, R>>⟧.reads human lends j v.sign) (v.sign ≡ 47)
        (Field (λ j. ⟦<(u16, u16) as Deserialize<'de, R>>⟧.reads human lends j v.corner) (v.corner ≡ CORNER)
        (Field (λ j. ⟦<Level as Deserialize<'de, R>>⟧.reads human lends j v.level) (v.level ≡ PLAIN) NoField)))))))) m };

    ghost absent = { None };

    ghost refuses = { RefusesFields (codes "host" ∷ (codes "port"
        ∷ (codes "tries" ∷ (codes "shift" ∷ (codes "note" ∷ (codes "sign" ∷ (codes "corner" ∷ (codes "level" ∷ []))))))))
        (is_none ⟦<String as Deserialize<'de, R>>⟧.absent ∷
        (is_none ⟦<Defaulted<u16> as Deserialize<'de, R>>⟧.absent
        ∷ (is_none ⟦<Defaulted<i32> as Deserialize<'de, R>>⟧.absent
        ∷ (is_none ⟦<Defaulted<i8> as Deserialize<'de, R>>⟧.absent
        ∷ (is_none ⟦<Option<String> as Deserialize<'de, R>>⟧.absent
        ∷ (is_none ⟦<Defaulted<char> as Deserialize<'de, R>>⟧.absent
        ∷ (is_none ⟦<Defaulted<(u16, u16)> as Deserialize<'de, R>>⟧.absent ∷ (is_none ⟦<Defaulted<Level> as Deserialize<'de, R>>⟧.absent ∷ []))))))))
        (part_of ⟦<String as Deserialize<'de, R>>⟧.reads ⟦<String as Deserialize<'de, R>>⟧.refuses
        ∷ (part_of ⟦<Defaulted<u16> as Deserialize<'de, R>>⟧.reads ⟦<Defaulted<u16> as Deserialize<'de, R>>⟧.refuses
        ∷ (part_of ⟦<Defaulted<i32> as Deserialize<'de, R>>⟧.reads ⟦<Defaulted<i32> as Deserialize<'de, R>>⟧.refuses
        ∷ (part_of ⟦<Defaulted<i8> as Deserialize<'de, R>>⟧.reads ⟦<Defaulted<i8> as Deserialize<'de, R>>⟧.refuses
        ∷ (part_of ⟦<Option<String> as Deserialize<'de, R>>⟧.reads ⟦<Option<String> as Deserialize<'de, R>>⟧.refuses
        ∷ (part_of ⟦<Defaulted<char> as Deserialize<'de, R>>⟧.reads ⟦<Defaulted<char> as Deserialize<'de, R>>⟧.refuses
        ∷ (part_of ⟦<Defaulted<(u16, u16)> as Deserialize<'de, R>>⟧.reads ⟦<Defaulted<(u16, u16)> as Deserialize<'de, R>>⟧.refuses
        ∷ (part_of ⟦<Defaulted<Level> as Deserialize<'de, R>>⟧.reads ⟦<Defaulted<Level> as Deserialize<'de, R>>⟧.refuses ∷ [])))))))) };

    fn deserialize<C: SerializerConfig>(
        de: &mut Deserializer<R, C>,
    ) -> Result<Server, rmp_decode::Error> {
        let read: Result<
            (
                String,
                Defaulted<u16>,
                Defaulted<i32>,
                Defaulted<i8>,
                (
                    Option<String>,
                    Defaulted<char>,
                    Defaulted<(u16, u16)>,
                    Defaulted<Level>,
                    (),
                ),
            ),
            rmp_decode::Error,
        > = rmp_decode::read_fields_8(
            de,
            &[
                "host", "port", "tries", "shift", "note", "sign", "corner", "level",
            ],
        );
        match read {
            Ok(parts) => {
                let (host, port, tries, shift, (note, sign, corner, level, ())) = parts;
                let port = port.value.unwrap_or(8080);
                let tries = tries.value.unwrap_or(TRIES);
                let shift = shift.value.unwrap_or(0);
                let sign = sign.value.unwrap_or('/');
                let corner = corner.value.unwrap_or(CORNER);
                let level = level.value.unwrap_or(PLAIN);
                return Ok(Server {
                    host,
                    port,
                    tries,
                    shift,
                    note,
                    sign,
                    corner,
                    level,
                });
            }
            Err(e) => return Err(e),
        }
    }

    fn missing() -> Option<Server> {
        None
    }
}

impl<'de, R: ReadSlice<'de>> RoundTrip<'de, R> for Server {
    ghost use Rattle.test_derived.specs.contracts.defaults.derived.LevelRoundTrip.TheImpl.Laws as level_rounds;
    ghost use mir.Syntax.{given};

    ghost has_data = { λ human v. structure_all ((codes "host", ⟦<String as Serialize>⟧.data_of v.host human)
        ∷ ((codes "port", ⟦<u16 as Serialize>⟧.data_of v.port human)
        ∷ ((codes "tries", ⟦<i32 as Serialize>⟧.data_of v.tries human)
        ∷ ((codes "shift", ⟦<i8 as Serialize>⟧.data_of v.shift human)
        ∷ ((codes "note", ⟦<Option<String> as Serialize>⟧.data_of v.note human)
        ∷ ((codes "sign", ⟦<char as Serialize>⟧.data_of v.sign human)
        ∷ ((codes "corner", ⟦<(u16, u16) as Serialize>⟧.data_of v.corner human)
        ∷ ((codes "level", ⟦<Level as Serialize>⟧.data_of v.level human) ∷ [])))))))) (
          refl,
          (
            refl,
            (
              refl,
              (
                refl,
                (
                  (option_some (λ x. ⟦<String as Serialize>⟧.data_of x human) (λ x1. refl) v.note),
                  (
                    refl,
                    (
                      (tuple_all (⟦<u16 as Serialize>⟧.data_of v.corner.0 human ∷ (⟦<u16 as Serialize>⟧.data_of v.corner.1 human ∷ [])) (refl, (refl, tt))),
                      ((level_rounds.has_data-law R.row R.ReadSlice.own (given 0) R.Source (given 0) human v.level), tt),
                    ),
                  ),
                ),
              ),
            ),
          ),
        ) };

    ghost round = { λ lent s v fits. structure_row s (codes "host"
        ∷ (codes "port" ∷ (codes "tries" ∷ (codes "shift" ∷ (codes "note" ∷ (codes "sign" ∷ (codes "corner" ∷ (codes "level" ∷ [])))))))) _ _ refl
        (fields_cons s (codes "host") _ _ _ (λ j. ⟦<String as Deserialize<'de, R>>⟧.reads s.human R.lends j v.host)
        (Absent ⟦<String as Deserialize<'de, R>>⟧.absent v.host) _ (string_row s (string_bytes v.host))
        (fields_cons s (codes "port") _ _ _ (λ j. ⟦<u16 as Deserialize<'de, R>>⟧.reads s.human R.lends j v.port) (v.port ≡ 8080) _
        (unsigned_row_16 s v.port fits.1) (fields_cons s (codes "tries") _ _ _ (λ j. ⟦<i32 as Deserialize<'de, R>>⟧.reads s.human R.lends j v.tries)
        (v.tries ≡ TRIES) _ (signed_row_32 s v.tries fits.2)
        (fields_cons s (codes "shift") _ _ _ (λ j. ⟦<i8 as Deserialize<'de, R>>⟧.reads s.human R.lends j v.shift) (v.shift ≡ pos 0) _
        (signed_row_8 s v.shift fits.3) (fields_cons s (codes "note") _ _ _ (λ j. ⟦<Option<String> as Deserialize<'de, R>>⟧.reads s.human R.lends j v.note)
        (Absent ⟦<Option<String> as Deserialize<'de, R>>⟧.absent v.note) _
        (option_row s (λ x. ⟦<String as Serialize>⟧.data_of x s.human) ⟦<String as Serialize>⟧.is_value
        (⟦<String as Deserialize<'de, R>>⟧.reads s.human R.lends) (λ x4. text_other s (string_bytes x4)) (λ x3 h3. (string_row s (string_bytes x3))) v.note
        fits.4) (fields_cons s (codes "sign") _ _ _ (λ j. ⟦<char as Deserialize<'de, R>>⟧.reads s.human R.lends j v.sign) (v.sign ≡ 47) _
        (char_row s v.sign fits.5) (fields_cons s (codes "corner") _ _ _ (λ j. ⟦<(u16, u16) as Deserialize<'de, R>>⟧.reads s.human R.lends j v.corner)
        (v.corner ≡ CORNER) _ (tuple_row s _ _ (rows_cons s _ _ (λ j. ⟦<u16 as Deserialize<'de, R>>⟧.reads s.human R.lends j v.corner.0) _
        (unsigned_row_16 s v.corner.0 fits.6.0) (rows_cons s _ _ (λ j. ⟦<u16 as Deserialize<'de, R>>⟧.reads s.human R.lends j v.corner.1) _
        (unsigned_row_16 s v.corner.1 fits.6.1) (rows_none s))))
        (fields_cons s (codes "level") _ _ _ (λ j. ⟦<Level as Deserialize<'de, R>>⟧.reads s.human R.lends j v.level) (v.level ≡ PLAIN) _
        (level_rounds.round-law R.row R.ReadSlice.own (given 0) R.Source (given 0) (λ e. cc) s v.level fits.7) (fields_none s))))))))) };

    ghost same = { λ v w. ⟦<String as RoundTrip<'de, R>>⟧.same v.host w.host × ⟦<u16 as RoundTrip<'de, R>>⟧.same v.port w.port
        × ⟦<i32 as RoundTrip<'de, R>>⟧.same v.tries w.tries × ⟦<i8 as RoundTrip<'de, R>>⟧.same v.shift w.shift
        × ⟦<Option<String> as RoundTrip<'de, R>>⟧.same v.note w.note × ⟦<char as RoundTrip<'de, R>>⟧.same v.sign w.sign
        × ⟦<(u16, u16) as RoundTrip<'de, R>>⟧.same v.corner w.corner × ⟦<Level as RoundTrip<'de, R>>⟧.same v.level w.level };

    ghost alike = { λ human v w h i. structure_of ((codes "host", (text_alike (string_bytes v.host) (string_bytes w.host) h.0 i))
        ∷ ((codes "port", (⟦<u16 as Serialize>⟧.data_of (h.1 i) human))
        ∷ ((codes "tries", (⟦<i32 as Serialize>⟧.data_of (h.2 i) human))
        ∷ ((codes "shift", (⟦<i8 as Serialize>⟧.data_of (h.3 i) human))
        ∷ ((
          codes "note",
          (option_alike ⟦<String as RoundTrip<'de, R>>⟧.same (λ x. ⟦<String as Serialize>⟧.data_of x human)
              (λ x3 yx3 h3 i. (text_alike (string_bytes x3) (string_bytes yx3) h3 i)) v.note w.note h.4 i),
        )
        ∷ ((codes "sign", (⟦<char as Serialize>⟧.data_of (h.5 i) human))
        ∷ ((codes "corner", (tuple_of ((⟦<u16 as Serialize>⟧.data_of (h.6.0 i) human) ∷ ((⟦<u16 as Serialize>⟧.data_of (h.6.1 i) human) ∷ []))))
        ∷ ((codes "level", (level_rounds.alike-law R.row R.ReadSlice.own (given 0) R.Source (given 0) human v.level w.level h.7 i)) ∷ [])))))))) };

    ghost only = { λ s v fits. lowers_then s _ _ (λ m. (w : _) → (⟦<Server as Deserialize<'de, R>>⟧.reads s.human R.lends) m w
        → ⟦<String as RoundTrip<'de, R>>⟧.same v.host w.host × ⟦<u16 as RoundTrip<'de, R>>⟧.same v.port w.port
        × ⟦<i32 as RoundTrip<'de, R>>⟧.same v.tries w.tries × ⟦<i8 as RoundTrip<'de, R>>⟧.same v.shift w.shift
        × ⟦<Option<String> as RoundTrip<'de, R>>⟧.same v.note w.note × ⟦<char as RoundTrip<'de, R>>⟧.same v.sign w.sign
        × ⟦<(u16, u16) as RoundTrip<'de, R>>⟧.same v.corner w.corner × ⟦<Level as RoundTrip<'de, R>>⟧.same v.level w.level)
        (structure_row s (codes "host" ∷ (codes "port" ∷ (codes "tries"
        ∷ (codes "shift" ∷ (codes "note" ∷ (codes "sign" ∷ (codes "corner" ∷ (codes "level" ∷ [])))))))) _ _ refl
        (fields_cons s (codes "host") _ _ _ (λ j. Only (⟦<String as Deserialize<'de, R>>⟧.reads s.human R.lends) ⟦<String as RoundTrip<'de, R>>⟧.same j
        v.host) ⊥ _ (string_only s (λ w. string_bytes w) (string_bytes v.host))
        (fields_cons s (codes "port") _ _ _ (λ j. Only (⟦<u16 as Deserialize<'de, R>>⟧.reads s.human R.lends) ⟦<u16 as RoundTrip<'de, R>>⟧.same j v.port) ⊥
        _ (unsigned_only s 65535 v.port) (fields_cons s (codes "tries") _ _ _
        (λ j. Only (⟦<i32 as Deserialize<'de, R>>⟧.reads s.human R.lends) ⟦<i32 as RoundTrip<'de, R>>⟧.same j v.tries) ⊥ _
        (signed_only s (negsuc 2147483647) (pos 2147483647) v.tries)
        (fields_cons s (codes "shift") _ _ _ (λ j. Only (⟦<i8 as Deserialize<'de, R>>⟧.reads s.human R.lends) ⟦<i8 as RoundTrip<'de, R>>⟧.same j v.shift) ⊥
        _ (signed_only s (negsuc 127) (pos 127) v.shift) (fields_cons s (codes "note") _ _ _
        (λ j. Only (⟦<Option<String> as Deserialize<'de, R>>⟧.reads s.human R.lends) ⟦<Option<String> as RoundTrip<'de, R>>⟧.same j v.note) ⊥ _
        (option_only s _ (⟦<String as Deserialize<'de, R>>⟧.reads s.human R.lends) ⟦<String as RoundTrip<'de, R>>⟧.same v.note
        (option_row s (λ x. ⟦<String as Serialize>⟧.data_of x s.human) ⟦<String as Serialize>⟧.is_value
        (Only (⟦<String as Deserialize<'de, R>>⟧.reads s.human R.lends) ⟦<String as RoundTrip<'de, R>>⟧.same) (λ x2. text_other s (string_bytes x2))
        (λ x1 h1. (string_only s (λ w. string_bytes w) (string_bytes x1))) v.note fits.4))
        (fields_cons s (codes "sign") _ _ _ (λ j. Only (⟦<char as Deserialize<'de, R>>⟧.reads s.human R.lends) ⟦<char as RoundTrip<'de, R>>⟧.same j v.sign)
        ⊥ _ (char_only s v.sign fits.5) (fields_cons s (codes "corner") _ _ _
        (λ j. Only (⟦<(u16, u16) as Deserialize<'de, R>>⟧.reads s.human R.lends) ⟦<(u16, u16) as RoundTrip<'de, R>>⟧.same j v.corner) ⊥ _
        (lowers_then s _ _ (λ j. Only (⟦<(u16, u16) as Deserialize<'de, R>>⟧.reads s.human R.lends) ⟦<(u16, u16) as RoundTrip<'de, R>>⟧.same j v.corner)
        (tuple_row s _ _ (rows_cons s _ _ (λ j. Only (⟦<u16 as Deserialize<'de, R>>⟧.reads s.human R.lends) ⟦<u16 as RoundTrip<'de, R>>⟧.same j v.corner.0)
        _ (unsigned_only s 65535 v.corner.0) (rows_cons s _ _
        (λ j. Only (⟦<u16 as Deserialize<'de, R>>⟧.reads s.human R.lends) ⟦<u16 as RoundTrip<'de, R>>⟧.same j v.corner.1) _
        (unsigned_only s 65535 v.corner.1) (rows_none s))))
        (λ m q w r. row_both _ _ _ m q r (item_only (⟦<u16 as Deserialize<'de, R>>⟧.reads s.human R.lends) ⟦<u16 as RoundTrip<'de, R>>⟧.same v.corner.0 w.0
        _ _ _ (last_only (⟦<u16 as Deserialize<'de, R>>⟧.reads s.human R.lends) ⟦<u16 as RoundTrip<'de, R>>⟧.same v.corner.1 w.1))))
        (fields_cons s (codes "level") _ _ _ (λ j. Only (⟦<Level as Deserialize<'de, R>>⟧.reads s.human R.lends) ⟦<Level as RoundTrip<'de, R>>⟧.same j
        v.level) ⊥ _ (level_rounds.only-law R.row R.ReadSlice.own (given 0) R.Source (given 0) s v.level fits.7) (fields_none s))))))))))
        (λ m q w r. fields_both (codes "host" ∷ (codes "port"
        ∷ (codes "tries" ∷ (codes "shift" ∷ (codes "note" ∷ (codes "sign" ∷ (codes "corner" ∷ (codes "level" ∷ [])))))))) _ _ _ m q r
        (λ ks i j. let x = field_only (⟦<String as Deserialize<'de, R>>⟧.reads s.human R.lends) ⟦<String as RoundTrip<'de, R>>⟧.same v.host w.host _ _ _ _
        (field_only (⟦<u16 as Deserialize<'de, R>>⟧.reads s.human R.lends) ⟦<u16 as RoundTrip<'de, R>>⟧.same v.port w.port _ _ _ _
        (field_only (⟦<i32 as Deserialize<'de, R>>⟧.reads s.human R.lends) ⟦<i32 as RoundTrip<'de, R>>⟧.same v.tries w.tries _ _ _ _
        (field_only (⟦<i8 as Deserialize<'de, R>>⟧.reads s.human R.lends) ⟦<i8 as RoundTrip<'de, R>>⟧.same v.shift w.shift _ _ _ _
        (field_only (⟦<Option<String> as Deserialize<'de, R>>⟧.reads s.human R.lends) ⟦<Option<String> as RoundTrip<'de, R>>⟧.same v.note w.note _ _ _ _
        (field_only (⟦<char as Deserialize<'de, R>>⟧.reads s.human R.lends) ⟦<char as RoundTrip<'de, R>>⟧.same v.sign w.sign _ _ _ _
        (field_only (⟦<(u16, u16) as Deserialize<'de, R>>⟧.reads s.human R.lends) ⟦<(u16, u16) as RoundTrip<'de, R>>⟧.same v.corner w.corner _ _ _ _
        (last_field (⟦<Level as Deserialize<'de, R>>⟧.reads s.human R.lends) ⟦<Level as RoundTrip<'de, R>>⟧.same v.level w.level _))))))) ks i j
        in (x.0, x.1.0, x.1.1.0, x.1.1.1.0, x.1.1.1.1.0, x.1.1.1.1.1.0, x.1.1.1.1.1.1.0, x.1.1.1.1.1.1.1))) };
}

impl NeverNil for Server {
    ghost never_nil = { λ s v. structure_other s _ };
}

impl<'de, R: ReadSlice<'de>> EndsInside<'de, R> for Server {
    ghost use Rattle.test_derived.specs.contracts.defaults.derived.LevelEndsInside.TheImpl.Laws as level_ends;
    ghost use mir.Syntax.{given};

    ghost ends_inside = { fields_inside _ _ _ (
      string_inside,
      (
        number_inside,
        (
          number_inside,
          (
            number_inside,
            (
              (option_inside ⟦<String as Deserialize<'de, R>>⟧.refuses string_inside),
              (
                char_inside,
                (
                  (tuple_inside (part_of ⟦<u16 as Deserialize<'de, R>>⟧.reads ⟦<u16 as Deserialize<'de, R>>⟧.refuses
                      ∷ (part_of ⟦<u16 as Deserialize<'de, R>>⟧.reads ⟦<u16 as Deserialize<'de, R>>⟧.refuses ∷ [])) (number_inside, (number_inside, tt))),
                  ((level_ends.ends_inside-law R.row R.ReadSlice.own (given 0) R.Source (given 0)), tt),
                ),
              ),
            ),
          ),
        ),
      ),
    ) };
}

impl Serialize for Proxy {
    ghost data_of = { λ v human. structure_of ((codes "host", ⟦<String as Serialize>⟧.data_of v.host human)
        ∷ ((codes "tries", ⟦<Option<u8> as Serialize>⟧.data_of v.tries human)
        ∷ ((codes "name", ⟦<String as Serialize>⟧.data_of v.name human)
        ∷ ((codes "address", ⟦<[u8; 4] as Serialize>⟧.data_of v.address human)
        ∷ ((codes "ports", ⟦<(u16, i32) as Serialize>⟧.data_of v.ports human)
        ∷ ((codes "load", ⟦<F64Bits as Serialize>⟧.data_of v.load human) ∷ ((codes "level", ⟦<Level as Serialize>⟧.data_of v.level human) ∷ []))))))) };

    ghost is_value = { λ v. ⟦<String as Serialize>⟧.is_value v.host × ⟦<Option<u8> as Serialize>⟧.is_value v.tries × ⟦<String as Serialize>⟧.is_value v.name
        × ⟦<[u8; 4] as Serialize>⟧.is_value v.address × ⟦<(u16, i32) as Serialize>⟧.is_value v.ports × ⟦<F64Bits as Serialize>⟧.is_value v.load
        × ⟦<Level as Serialize>⟧.is_value v.level };

    ghost takes_memory = { λ s. one_of (⟦<String as Serialize>⟧.takes_memory s
        ∷ (⟦<Option<u8> as Serialize>⟧.takes_memory s ∷ (⟦<String as Serialize>⟧.takes_memory s
        ∷ (⟦<[u8; 4] as Serialize>⟧.takes_memory s ∷ (⟦<(u16, i32) as Serialize>⟧.takes_memory s
        ∷ (⟦<F64Bits as Serialize>⟧.takes_memory s ∷ (⟦<Level as Serialize>⟧.takes_memory s ∷ []))))))) };

    ghost refuses = { λ v. OfParts ⊥ (⟦<String as Serialize>⟧.refuses v.host
        ∷ (⟦<Option<u8> as Serialize>⟧.refuses v.tries ∷ (⟦<String as Serialize>⟧.refuses v.name
        ∷ (⟦<[u8; 4] as Serialize>⟧.refuses v.address ∷ (⟦<(u16, i32) as Serialize>⟧.refuses v.ports
        ∷ (⟦<F64Bits as Serialize>⟧.refuses v.load ∷ (⟦<Level as Serialize>⟧.refuses v.level ∷ []))))))) };

    fn serialize<W: Sink, C: SerializerConfig>(
        &self,
        se: &mut Serializer<W, C>,
    ) -> Result<(), rmp_encode::Error> {
        let parts = rmp_encode::Seven {
            first: &self.host,
            second: &self.tries,
            third: &self.name,
            fourth: &self.address,
            fifth: &self.ports,
            sixth: &self.load,
            seventh: &self.level,
        };
        se.serialize_fields(
            "Proxy",
            &["host", "tries", "name", "address", "ports", "load", "level"],
            &parts,
        )
    }

    #[tactic(auto, using(rmp_encode::proofs::Fields::structure_no_byte))]
    fn as_u8(&self, _human: bool) -> Option<u8> {
        None
    }
}

impl<'de, R: ReadSlice<'de>> Deserialize<'de, R> for Proxy {
    ghost reads = { λ human lends m v. OfFields (codes "host"
        ∷ (codes "tries" ∷ (codes "name" ∷ (codes "address" ∷ (codes "ports" ∷ (codes "load" ∷ (codes "level" ∷ [])))))))
        (Field (λ j. ⟦<String as Deserialize<'de, R>>⟧.reads human lends j v.host) (string_bytes v.host ≡ codes "localhost")
        (Field (λ j. ⟦<Option<u8> as Deserialize<'de, R>>⟧.reads human lends j v.tries) (v.tries ≡ Some 3)
        (Field (λ j. ⟦<String as Deserialize<'de, R>>⟧.reads human lends j v.name) (string_bytes v.name ≡ NAME.now)
        (Field (λ j. ⟦<[u8; 4] as Deserialize<'de, R>>⟧.reads human lends j v.address) (v.address ≡ 127 ∷ (0 ∷ (0 ∷ (1 ∷ []))))
        (Field (λ j. ⟦<(u16, i32) as Deserialize<'de, R>>⟧.reads human lends j v.ports) (v.ports ≡ (80, negsuc 0))
        (Field (λ j. ⟦<F64Bits as Deserialize<'de, R>>⟧.reads human lends j v.load) (v.load ≡ record { 0 = 4602678819172646912 })
        (Field (λ j. ⟦<Level as Deserialize<'de, R>>⟧.reads human lends j v.level) (v.level ≡ the_level.Loud) NoField))))))) m };

    ghost absent = { None };

    ghost refuses = { RefusesBoxed {V = Unit {0}} (λ human lends m v. Unit {0})
        (RefusesFields (codes "host" ∷ (codes "tries" ∷ (codes "name" ∷ (codes "address" ∷ (codes "ports" ∷ (codes "load" ∷ (codes "level" ∷ [])))))))
        (is_none ⟦<Defaulted<String> as Deserialize<'de, R>>⟧.absent
        ∷ (is_none ⟦<Defaulted<Option<u8>> as Deserialize<'de, R>>⟧.absent
        ∷ (is_none ⟦<Defaulted<String> as Deserialize<'de, R>>⟧.absent
        ∷ (is_none ⟦<Defaulted<[u8; 4]> as Deserialize<'de, R>>⟧.absent
        ∷ (is_none ⟦<Defaulted<(u16, i32)> as Deserialize<'de, R>>⟧.absent
        ∷ (is_none ⟦<Defaulted<F64Bits> as Deserialize<'de, R>>⟧.absent ∷ (is_none ⟦<Defaulted<Level> as Deserialize<'de, R>>⟧.absent ∷ [])))))))
        (part_of ⟦<Defaulted<String> as Deserialize<'de, R>>⟧.reads ⟦<Defaulted<String> as Deserialize<'de, R>>⟧.refuses
        ∷ (part_of ⟦<Defaulted<Option<u8>> as Deserialize<'de, R>>⟧.reads ⟦<Defaulted<Option<u8>> as Deserialize<'de, R>>⟧.refuses
        ∷ (part_of ⟦<Defaulted<String> as Deserialize<'de, R>>⟧.reads ⟦<Defaulted<String> as Deserialize<'de, R>>⟧.refuses
        ∷ (part_of ⟦<Defaulted<[u8; 4]> as Deserialize<'de, R>>⟧.reads ⟦<Defaulted<[u8; 4]> as Deserialize<'de, R>>⟧.refuses
        ∷ (part_of ⟦<Defaulted<(u16, i32)> as Deserialize<'de, R>>⟧.reads ⟦<Defaulted<(u16, i32)> as Deserialize<'de, R>>⟧.refuses
        ∷ (part_of ⟦<Defaulted<F64Bits> as Deserialize<'de, R>>⟧.reads ⟦<Defaulted<F64Bits> as Deserialize<'de, R>>⟧.refuses
        ∷ (part_of ⟦<Defaulted<Level> as Deserialize<'de, R>>⟧.reads ⟦<Defaulted<Level> as Deserialize<'de, R>>⟧.refuses ∷ [])))))))) };

    fn deserialize<C: SerializerConfig>(
        de: &mut Deserializer<R, C>,
    ) -> Result<Proxy, rmp_decode::Error> {
        let read: Result<
            (
                Defaulted<String>,
                Defaulted<Option<u8>>,
                Defaulted<String>,
                Defaulted<[u8; 4]>,
                (
                    Defaulted<(u16, i32)>,
                    (Defaulted<F64Bits>, (Defaulted<Level>, ())),
                ),
            ),
            rmp_decode::Error,
        > = rmp_decode::read_fields_7(
            de,
            &["host", "tries", "name", "address", "ports", "load", "level"],
        );
        match read {
            Ok(parts) => {
                let (host, tries, name, address, (ports, (load, (level, ())))) = parts;
                let host = match text_or(de.alloc(), host.value, "localhost") {
                    Ok(host) => host,
                    Err(_) => return Err(de.refuse(rmp_decode::Error::OutOfMemory)),
                };
                let tries = tries.value.unwrap_or(Some(3));
                let name = match text_or(de.alloc(), name.value, NAME) {
                    Ok(name) => name,
                    Err(_) => return Err(de.refuse(rmp_decode::Error::OutOfMemory)),
                };
                let address = address.value.unwrap_or([127, 0, 0, 1]);
                let ports = ports.value.unwrap_or((80, -1));
                let load = load.value.unwrap_or(F64Bits(4602678819172646912));
                let level = level.value.unwrap_or(Level::Loud);
                return Ok(Proxy {
                    host,
                    tries,
                    name,
                    address,
                    ports,
                    load,
                    level,
                });
            }
            Err(e) => return Err(e),
        }
    }

    fn missing() -> Option<Proxy> {
        None
    }
}

impl<'de, R: ReadSlice<'de>> RoundTrip<'de, R> for Proxy {
    ghost use Rattle.test_derived.specs.contracts.defaults.derived.LevelRoundTrip.TheImpl.Laws as level_rounds;
    ghost use mir.Syntax.{given};

    ghost has_data = { λ human v. structure_all ((codes "host", ⟦<String as Serialize>⟧.data_of v.host human)
        ∷ ((codes "tries", ⟦<Option<u8> as Serialize>⟧.data_of v.tries human)
        ∷ ((codes "name", ⟦<String as Serialize>⟧.data_of v.name human)
        ∷ ((codes "address", ⟦<[u8; 4] as Serialize>⟧.data_of v.address human)
        ∷ ((codes "ports", ⟦<(u16, i32) as Serialize>⟧.data_of v.ports human)
        ∷ ((codes "load", ⟦<F64Bits as Serialize>⟧.data_of v.load human) ∷ ((codes "level", ⟦<Level as Serialize>⟧.data_of v.level human) ∷ []))))))) (
          refl,
          (
            (option_some (λ x. ⟦<u8 as Serialize>⟧.data_of x human) (λ x1. refl) v.tries),
            (
              refl,
              (
                (tuple_some _ (each_some (λ x. ⟦<u8 as Serialize>⟧.data_of x human) (λ x2. refl) v.address)),
                (
                  (tuple_all (⟦<u16 as Serialize>⟧.data_of v.ports.0 human ∷ (⟦<i32 as Serialize>⟧.data_of v.ports.1 human ∷ [])) (refl, (refl, tt))),
                  (refl, ((level_rounds.has_data-law R.row R.ReadSlice.own (given 0) R.Source (given 0) human v.level), tt)),
                ),
              ),
            ),
          ),
        ) };

    ghost round = { λ lent s v fits. structure_row s (codes "host"
        ∷ (codes "tries" ∷ (codes "name" ∷ (codes "address" ∷ (codes "ports" ∷ (codes "load" ∷ (codes "level" ∷ []))))))) _ _ refl
        (fields_cons s (codes "host") _ _ _ (λ j. ⟦<String as Deserialize<'de, R>>⟧.reads s.human R.lends j v.host)
        (string_bytes v.host ≡ codes "localhost") _ (string_row s (string_bytes v.host))
        (fields_cons s (codes "tries") _ _ _ (λ j. ⟦<Option<u8> as Deserialize<'de, R>>⟧.reads s.human R.lends j v.tries) (v.tries ≡ Some 3) _
        (option_row s (λ x. ⟦<u8 as Serialize>⟧.data_of x s.human) ⟦<u8 as Serialize>⟧.is_value (⟦<u8 as Deserialize<'de, R>>⟧.reads s.human R.lends)
        (λ x5. byte_other s x5) (λ x4 h4. (byte_row s x4 h4)) v.tries fits.1)
        (fields_cons s (codes "name") _ _ _ (λ j. ⟦<String as Deserialize<'de, R>>⟧.reads s.human R.lends j v.name) (string_bytes v.name ≡ NAME.now) _
        (string_row s (string_bytes v.name)) (fields_cons s (codes "address") _ _ _
        (λ j. ⟦<[u8; 4] as Deserialize<'de, R>>⟧.reads s.human R.lends j v.address) (v.address ≡ 127 ∷ (0 ∷ (0 ∷ (1 ∷ [])))) _
        (tuple_row s _ (Exactly 4 (⟦<u8 as Deserialize<'de, R>>⟧.reads s.human R.lends) v.address)
        (rows_map s _ _ _ (λ ms each. (fits.3.0, each)) (each_row s (λ x. ⟦<u8 as Serialize>⟧.data_of x s.human) ⟦<u8 as Serialize>⟧.is_value
        (⟦<u8 as Deserialize<'de, R>>⟧.reads s.human R.lends) (λ x6 h6. (byte_row s x6 h6)) v.address fits.3.1)))
        (fields_cons s (codes "ports") _ _ _ (λ j. ⟦<(u16, i32) as Deserialize<'de, R>>⟧.reads s.human R.lends j v.ports) (v.ports ≡ (80, negsuc 0)) _
        (tuple_row s _ _ (rows_cons s _ _ (λ j. ⟦<u16 as Deserialize<'de, R>>⟧.reads s.human R.lends j v.ports.0) _ (unsigned_row_16 s v.ports.0 fits.4.0)
        (rows_cons s _ _ (λ j. ⟦<i32 as Deserialize<'de, R>>⟧.reads s.human R.lends j v.ports.1) _ (signed_row_32 s v.ports.1 fits.4.1) (rows_none s))))
        (fields_cons s (codes "load") _ _ _ (λ j. ⟦<F64Bits as Deserialize<'de, R>>⟧.reads s.human R.lends j v.load)
        (v.load ≡ record { 0 = 4602678819172646912 }) _ (float64_row s v.load.0)
        (fields_cons s (codes "level") _ _ _ (λ j. ⟦<Level as Deserialize<'de, R>>⟧.reads s.human R.lends j v.level) (v.level ≡ the_level.Loud) _
        (level_rounds.round-law R.row R.ReadSlice.own (given 0) R.Source (given 0) (λ e. cc) s v.level fits.6) (fields_none s)))))))) };

    ghost same = { λ v w. ⟦<String as RoundTrip<'de, R>>⟧.same v.host w.host × ⟦<Option<u8> as RoundTrip<'de, R>>⟧.same v.tries w.tries
        × ⟦<String as RoundTrip<'de, R>>⟧.same v.name w.name × ⟦<[u8; 4] as RoundTrip<'de, R>>⟧.same v.address w.address
        × ⟦<(u16, i32) as RoundTrip<'de, R>>⟧.same v.ports w.ports × ⟦<F64Bits as RoundTrip<'de, R>>⟧.same v.load w.load
        × ⟦<Level as RoundTrip<'de, R>>⟧.same v.level w.level };

    ghost alike = { λ human v w h i. structure_of ((codes "host", (text_alike (string_bytes v.host) (string_bytes w.host) h.0 i))
        ∷ ((
          codes "tries",
          (option_alike ⟦<u8 as RoundTrip<'de, R>>⟧.same (λ x. ⟦<u8 as Serialize>⟧.data_of x human)
              (λ x4 yx4 h4 i. (⟦<u8 as Serialize>⟧.data_of (h4 i) human)) v.tries w.tries h.1 i),
        )
        ∷ ((codes "name", (text_alike (string_bytes v.name) (string_bytes w.name) h.2 i))
        ∷ ((
          codes "address",
          (array_alike ⟦<u8 as RoundTrip<'de, R>>⟧.same (λ x. ⟦<u8 as Serialize>⟧.data_of x human)
              (λ x5 yx5 h5 i. (⟦<u8 as Serialize>⟧.data_of (h5 i) human)) v.address w.address h.3 i),
        )
        ∷ ((codes "ports", (tuple_of ((⟦<u16 as Serialize>⟧.data_of (h.4.0 i) human) ∷ ((⟦<i32 as Serialize>⟧.data_of (h.4.1 i) human) ∷ []))))
        ∷ ((codes "load", (float64_alike v.load.0 w.load.0 h.5 i))
        ∷ ((codes "level", (level_rounds.alike-law R.row R.ReadSlice.own (given 0) R.Source (given 0) human v.level w.level h.6 i)) ∷ []))))))) };

    ghost only = { λ s v fits. lowers_then s _ _ (λ m. (w : _) → (⟦<Proxy as Deserialize<'de, R>>⟧.reads s.human R.lends) m w
        → ⟦<String as RoundTrip<'de, R>>⟧.same v.host w.host × ⟦<Option<u8> as RoundTrip<'de, R>>⟧.same v.tries w.tries
        × ⟦<String as RoundTrip<'de, R>>⟧.same v.name w.name × ⟦<[u8; 4] as RoundTrip<'de, R>>⟧.same v.address w.address
        × ⟦<(u16, i32) as RoundTrip<'de, R>>⟧.same v.ports w.ports × ⟦<F64Bits as RoundTrip<'de, R>>⟧.same v.load w.load
        × ⟦<Level as RoundTrip<'de, R>>⟧.same v.level w.level)
        (structure_row s (codes "host" ∷ (codes "tries" ∷ (codes "name" ∷ (codes "address" ∷ (codes "ports" ∷ (codes "load" ∷ (codes "level" ∷ []))))))) _ _
        refl (fields_cons s (codes "host") _ _ _ (λ j. Only (⟦<String as Deserialize<'de, R>>⟧.reads s.human R.lends) ⟦<String as RoundTrip<'de, R>>⟧.same j
        v.host) ⊥ _ (string_only s (λ w. string_bytes w) (string_bytes v.host))
        (fields_cons s (codes "tries") _ _ _ (λ j. Only (⟦<Option<u8> as Deserialize<'de, R>>⟧.reads s.human R.lends)
        ⟦<Option<u8> as RoundTrip<'de, R>>⟧.same j v.tries) ⊥ _
        (option_only s _ (⟦<u8 as Deserialize<'de, R>>⟧.reads s.human R.lends) ⟦<u8 as RoundTrip<'de, R>>⟧.same v.tries
        (option_row s (λ x. ⟦<u8 as Serialize>⟧.data_of x s.human) ⟦<u8 as Serialize>⟧.is_value
        (Only (⟦<u8 as Deserialize<'de, R>>⟧.reads s.human R.lends) ⟦<u8 as RoundTrip<'de, R>>⟧.same) (λ x2. byte_other s x2) (λ x1 h1. (byte_only s x1))
        v.tries fits.1)) (fields_cons s (codes "name") _ _ _
        (λ j. Only (⟦<String as Deserialize<'de, R>>⟧.reads s.human R.lends) ⟦<String as RoundTrip<'de, R>>⟧.same j v.name) ⊥ _
        (string_only s (λ w. string_bytes w) (string_bytes v.name))
        (fields_cons s (codes "address") _ _ _ (λ j. Only (⟦<[u8; 4] as Deserialize<'de, R>>⟧.reads s.human R.lends) ⟦<[u8; 4] as RoundTrip<'de, R>>⟧.same j
        v.address) ⊥ _ (array_only s _ 4 (⟦<u8 as Deserialize<'de, R>>⟧.reads s.human R.lends) ⟦<u8 as RoundTrip<'de, R>>⟧.same v.address
        (tuple_row s _ (λ ms. ReadsEach (Only (⟦<u8 as Deserialize<'de, R>>⟧.reads s.human R.lends) ⟦<u8 as RoundTrip<'de, R>>⟧.same) ms v.address)
        (each_row s (λ x. ⟦<u8 as Serialize>⟧.data_of x s.human) ⟦<u8 as Serialize>⟧.is_value
        (Only (⟦<u8 as Deserialize<'de, R>>⟧.reads s.human R.lends) ⟦<u8 as RoundTrip<'de, R>>⟧.same) (λ x3 h3. (byte_only s x3)) v.address fits.3.1)))
        (fields_cons s (codes "ports") _ _ _ (λ j. Only (⟦<(u16, i32) as Deserialize<'de, R>>⟧.reads s.human R.lends)
        ⟦<(u16, i32) as RoundTrip<'de, R>>⟧.same j v.ports) ⊥ _
        (lowers_then s _ _ (λ j. Only (⟦<(u16, i32) as Deserialize<'de, R>>⟧.reads s.human R.lends) ⟦<(u16, i32) as RoundTrip<'de, R>>⟧.same j v.ports)
        (tuple_row s _ _ (rows_cons s _ _ (λ j. Only (⟦<u16 as Deserialize<'de, R>>⟧.reads s.human R.lends) ⟦<u16 as RoundTrip<'de, R>>⟧.same j v.ports.0) _
        (unsigned_only s 65535 v.ports.0) (rows_cons s _ _
        (λ j. Only (⟦<i32 as Deserialize<'de, R>>⟧.reads s.human R.lends) ⟦<i32 as RoundTrip<'de, R>>⟧.same j v.ports.1) _
        (signed_only s (negsuc 2147483647) (pos 2147483647) v.ports.1) (rows_none s))))
        (λ m q w r. row_both _ _ _ m q r (item_only (⟦<u16 as Deserialize<'de, R>>⟧.reads s.human R.lends) ⟦<u16 as RoundTrip<'de, R>>⟧.same v.ports.0 w.0 _
        _ _ (last_only (⟦<i32 as Deserialize<'de, R>>⟧.reads s.human R.lends) ⟦<i32 as RoundTrip<'de, R>>⟧.same v.ports.1 w.1))))
        (fields_cons s (codes "load") _ _ _ (λ j. Only (⟦<F64Bits as Deserialize<'de, R>>⟧.reads s.human R.lends) ⟦<F64Bits as RoundTrip<'de, R>>⟧.same j
        v.load) ⊥ _ (float64_only s (λ w. w.0) v.load.0) (fields_cons s (codes "level") _ _ _
        (λ j. Only (⟦<Level as Deserialize<'de, R>>⟧.reads s.human R.lends) ⟦<Level as RoundTrip<'de, R>>⟧.same j v.level) ⊥ _
        (level_rounds.only-law R.row R.ReadSlice.own (given 0) R.Source (given 0) s v.level fits.6) (fields_none s)))))))))
        (λ m q w r. fields_both (codes "host" ∷ (codes "tries"
        ∷ (codes "name" ∷ (codes "address" ∷ (codes "ports" ∷ (codes "load" ∷ (codes "level" ∷ []))))))) _ _ _ m q r
        (λ ks i j. let x = field_only (⟦<String as Deserialize<'de, R>>⟧.reads s.human R.lends) ⟦<String as RoundTrip<'de, R>>⟧.same v.host w.host _ _ _ _
        (field_only (⟦<Option<u8> as Deserialize<'de, R>>⟧.reads s.human R.lends) ⟦<Option<u8> as RoundTrip<'de, R>>⟧.same v.tries w.tries _ _ _ _
        (field_only (⟦<String as Deserialize<'de, R>>⟧.reads s.human R.lends) ⟦<String as RoundTrip<'de, R>>⟧.same v.name w.name _ _ _ _
        (field_only (⟦<[u8; 4] as Deserialize<'de, R>>⟧.reads s.human R.lends) ⟦<[u8; 4] as RoundTrip<'de, R>>⟧.same v.address w.address _ _ _ _
        (field_only (⟦<(u16, i32) as Deserialize<'de, R>>⟧.reads s.human R.lends) ⟦<(u16, i32) as RoundTrip<'de, R>>⟧.same v.ports w.ports _ _ _ _
        (field_only (⟦<F64Bits as Deserialize<'de, R>>⟧.reads s.human R.lends) ⟦<F64Bits as RoundTrip<'de, R>>⟧.same v.load w.load _ _ _ _
        (last_field (⟦<Level as Deserialize<'de, R>>⟧.reads s.human R.lends) ⟦<Level as RoundTrip<'de, R>>⟧.same v.level w.level _)))))) ks i j
        in (x.0, x.1.0, x.1.1.0, x.1.1.1.0, x.1.1.1.1.0, x.1.1.1.1.1.0, x.1.1.1.1.1.1))) };
}

impl NeverNil for Proxy {
    ghost never_nil = { λ s v. structure_other s _ };
}

impl<'de, R: ReadSlice<'de>> EndsInside<'de, R> for Proxy {
    ghost use Rattle.test_derived.specs.contracts.defaults.derived.LevelEndsInside.TheImpl.Laws as level_ends;
    ghost use mir.Syntax.{given};

    ghost ends_inside = { box_inside {V = Unit {0}} (λ human lends m v. Unit {0})
        (RefusesFields (codes "host" ∷ (codes "tries" ∷ (codes "name" ∷ (codes "address" ∷ (codes "ports" ∷ (codes "load" ∷ (codes "level" ∷ [])))))))
        (is_none ⟦<Defaulted<String> as Deserialize<'de, R>>⟧.absent
        ∷ (is_none ⟦<Defaulted<Option<u8>> as Deserialize<'de, R>>⟧.absent
        ∷ (is_none ⟦<Defaulted<String> as Deserialize<'de, R>>⟧.absent
        ∷ (is_none ⟦<Defaulted<[u8; 4]> as Deserialize<'de, R>>⟧.absent
        ∷ (is_none ⟦<Defaulted<(u16, i32)> as Deserialize<'de, R>>⟧.absent
        ∷ (is_none ⟦<Defaulted<F64Bits> as Deserialize<'de, R>>⟧.absent ∷ (is_none ⟦<Defaulted<Level> as Deserialize<'de, R>>⟧.absent ∷ [])))))))
        (part_of ⟦<Defaulted<String> as Deserialize<'de, R>>⟧.reads ⟦<Defaulted<String> as Deserialize<'de, R>>⟧.refuses
        ∷ (part_of ⟦<Defaulted<Option<u8>> as Deserialize<'de, R>>⟧.reads ⟦<Defaulted<Option<u8>> as Deserialize<'de, R>>⟧.refuses
        ∷ (part_of ⟦<Defaulted<String> as Deserialize<'de, R>>⟧.reads ⟦<Defaulted<String> as Deserialize<'de, R>>⟧.refuses
        ∷ (part_of ⟦<Defaulted<[u8; 4]> as Deserialize<'de, R>>⟧.reads ⟦<Defaulted<[u8; 4]> as Deserialize<'de, R>>⟧.refuses
        ∷ (part_of ⟦<Defaulted<(u16, i32)> as Deserialize<'de, R>>⟧.reads ⟦<Defaulted<(u16, i32)> as Deserialize<'de, R>>⟧.refuses
        ∷ (part_of ⟦<Defaulted<F64Bits> as Deserialize<'de, R>>⟧.reads ⟦<Defaulted<F64Bits> as Deserialize<'de, R>>⟧.refuses
        ∷ (part_of ⟦<Defaulted<Level> as Deserialize<'de, R>>⟧.reads ⟦<Defaulted<Level> as Deserialize<'de, R>>⟧.refuses ∷ []))))))))
        (fields_inside _ _ _ (
          string_inside,
          (
            (option_inside ⟦<u8 as Deserialize<'de, R>>⟧.refuses number_inside),
            (
              string_inside,
              (
                (array_inside _ 4 ⟦<u8 as Deserialize<'de, R>>⟧.reads ⟦<u8 as Deserialize<'de, R>>⟧.refuses number_inside),
                (
                  (tuple_inside (part_of ⟦<u16 as Deserialize<'de, R>>⟧.reads ⟦<u16 as Deserialize<'de, R>>⟧.refuses
                      ∷ (part_of ⟦<i32 as Deserialize<'de, R>>⟧.reads ⟦<i32 as Deserialize<'de, R>>⟧.refuses ∷ [])) (number_inside, (number_inside, tt))),
                  (kind_inside, ((level_ends.ends_inside-law R.row R.ReadSlice.own (given 0) R.Source (given 0)), tt)),
                ),
              ),
            ),
          ),
        )) };
}

impl Serialize for Lists {
    ghost data_of = { λ v human. structure_of ((codes "name", ⟦<String as Serialize>⟧.data_of v.name human)
        ∷ ((codes "all", ⟦<Vec<u16> as Serialize>⟧.data_of v.list human)
        ∷ ((codes "counts", ⟦<BTreeMap<String, u64> as Serialize>⟧.data_of v.counts human)
        ∷ ((codes "seen", ⟦<BTreeSet<u32> as Serialize>⟧.data_of v.seen human) ∷ ((codes "raw", ⟦<ByteBuf as Serialize>⟧.data_of v.raw human) ∷ []))))) };

    ghost is_value = { λ v. ⟦<String as Serialize>⟧.is_value v.name × ⟦<Vec<u16> as Serialize>⟧.is_value v.list
        × ⟦<BTreeMap<String, u64> as Serialize>⟧.is_value v.counts × ⟦<BTreeSet<u32> as Serialize>⟧.is_value v.seen
        × ⟦<ByteBuf as Serialize>⟧.is_value v.raw };

    ghost takes_memory = { λ s. one_of (⟦<String as Serialize>⟧.takes_memory s
        ∷ (⟦<Vec<u16> as Serialize>⟧.takes_memory s ∷ (⟦<BTreeMap<String, u64> as Serialize>⟧.takes_memory s
        ∷ (⟦<BTreeSet<u32> as Serialize>⟧.takes_memory s ∷ (⟦<ByteBuf as Serialize>⟧.takes_memory s ∷ []))))) };

    ghost refuses = { λ v. OfParts ⊥ (⟦<String as Serialize>⟧.refuses v.name
        ∷ (⟦<Vec<u16> as Serialize>⟧.refuses v.list ∷ (⟦<BTreeMap<String, u64> as Serialize>⟧.refuses v.counts
        ∷ (⟦<BTreeSet<u32> as Serialize>⟧.refuses v.seen ∷ (⟦<ByteBuf as Serialize>⟧.refuses v.raw ∷ []))))) };

    fn serialize<W: Sink, C: SerializerConfig>(
        &self,
        se: &mut Serializer<W, C>,
    ) -> Result<(), rmp_encode::Error> {
        let parts = rmp_encode::Five {
            first: &self.name,
            second: &self.list,
            third: &self.counts,
            fourth: &self.seen,
            fifth: &self.raw,
        };
        se.serialize_fields("Lists", &["name", "all", "counts", "seen", "raw"], &parts)
    }

    #[tactic(auto, using(rmp_encode::proofs::Fields::structure_no_byte))]
    fn as_u8(&self, _human: bool) -> Option<u8> {
        None
    }
}

impl<'de, R: ReadSlice<'de>> Deserialize<'de, R> for Lists {
    ghost reads = { λ human lends m v. OfFields (codes "name" ∷ (codes "all" ∷ (codes "counts" ∷ (codes "seen" ∷ (codes "raw" ∷ [])))))
        (Field (λ j. ⟦<String as Deserialize<'de, R>>⟧.reads human lends j v.name) (string_bytes v.name ≡ [])
        (Field (λ j. ⟦<Vec<u16> as Deserialize<'de, R>>⟧.reads human lends j v.list) (v.list.items ≡ [])
        (Field (λ j. ⟦<BTreeMap<String, u64> as Deserialize<'de, R>>⟧.reads human lends j v.counts) (v.counts.entries ≡ [])
        (Field (λ j. ⟦<BTreeSet<u32> as Deserialize<'de, R>>⟧.reads human lends j v.seen) (v.seen.keys ≡ [])
        (Field (λ j. ⟦<ByteBuf as Deserialize<'de, R>>⟧.reads human lends j v.raw) (buffer_bytes v.raw ≡ []) NoField))))) m };

    ghost absent = { None };

    ghost refuses = { RefusesFields (codes "name" ∷ (codes "all" ∷ (codes "counts" ∷ (codes "seen" ∷ (codes "raw" ∷ [])))))
        (is_none ⟦<Defaulted<String> as Deserialize<'de, R>>⟧.absent
        ∷ (is_none ⟦<Defaulted<Vec<u16>> as Deserialize<'de, R>>⟧.absent
        ∷ (is_none ⟦<Defaulted<BTreeMap<String, u64>> as Deserialize<'de, R>>⟧.absent
        ∷ (is_none ⟦<Defaulted<BTreeSet<u32>> as Deserialize<'de, R>>⟧.absent ∷ (is_none ⟦<Defaulted<ByteBuf> as Deserialize<'de, R>>⟧.absent ∷ [])))))
        (part_of ⟦<Defaulted<String> as Deserialize<'de, R>>⟧.reads ⟦<Defaulted<String> as Deserialize<'de, R>>⟧.refuses
        ∷ (part_of ⟦<Defaulted<Vec<u16>> as Deserialize<'de, R>>⟧.reads ⟦<Defaulted<Vec<u16>> as Deserialize<'de, R>>⟧.refuses
        ∷ (part_of ⟦<Defaulted<BTreeMap<String, u64>> as Deserialize<'de, R>>⟧.reads ⟦<Defaulted<BTreeMap<String, u64>> as Deserialize<'de, R>>⟧.refuses
        ∷ (part_of ⟦<Defaulted<BTreeSet<u32>> as Deserialize<'de, R>>⟧.reads ⟦<Defaulted<BTreeSet<u32>> as Deserialize<'de, R>>⟧.refuses
        ∷ (part_of ⟦<Defaulted<ByteBuf> as Deserialize<'de, R>>⟧.reads ⟦<Defaulted<ByteBuf> as Deserialize<'de, R>>⟧.refuses ∷ []))))) };

    fn deserialize<C: SerializerConfig>(
        de: &mut Deserializer<R, C>,
    ) -> Result<Lists, rmp_decode::Error> {
        let read: Result<
            (
                Defaulted<String>,
                Defaulted<Vec<u16>>,
                Defaulted<BTreeMap<String, u64>>,
                Defaulted<BTreeSet<u32>>,
                (Defaulted<ByteBuf>, ()),
            ),
            rmp_decode::Error,
        > = rmp_decode::read_fields_5(de, &["name", "all", "counts", "seen", "raw"]);
        match read {
            Ok(parts) => {
                let (name, list, counts, seen, (raw, ())) = parts;
                let name = name.value.unwrap_or(String::new(de.alloc()));
                let list = list.value.unwrap_or(Vec::new(de.alloc()));
                let counts = counts.value.unwrap_or(BTreeMap::new(de.alloc()));
                let seen = seen.value.unwrap_or(BTreeSet::new(de.alloc()));
                let raw = raw.value.unwrap_or(ByteBuf::new(Vec::new(de.alloc())));
                return Ok(Lists {
                    name,
                    list,
                    counts,
                    seen,
                    raw,
                });
            }
            Err(e) => return Err(e),
        }
    }

    fn missing() -> Option<Lists> {
        None
    }
}

impl<'de, R: ReadSlice<'de>> RoundTrip<'de, R> for Lists {
    ghost has_data = { λ human v. structure_all ((codes "name", ⟦<String as Serialize>⟧.data_of v.name human)
        ∷ ((codes "all", ⟦<Vec<u16> as Serialize>⟧.data_of v.list human)
        ∷ ((codes "counts", ⟦<BTreeMap<String, u64> as Serialize>⟧.data_of v.counts human)
        ∷ ((codes "seen", ⟦<BTreeSet<u32> as Serialize>⟧.data_of v.seen human) ∷ ((codes "raw", ⟦<ByteBuf as Serialize>⟧.data_of v.raw human) ∷ []))))) (
          refl,
          (
            (slice_some _ (each_some (λ x. ⟦<u16 as Serialize>⟧.data_of x human) (λ x1. refl) v.list.items)),
            (
              (mapping_some (λ x. ⟦<String as Serialize>⟧.data_of x human) (λ x. ⟦<u64 as Serialize>⟧.data_of x human) (λ x2. refl) (λ x2. refl)
                  v.counts.entries),
              ((sequence_some _ (each_some (λ x. ⟦<u32 as Serialize>⟧.data_of x human) (λ x3. refl) v.seen.keys)), (refl, tt)),
            ),
          ),
        ) };

    ghost round = { λ lent s v fits. structure_row s (codes "name" ∷ (codes "all" ∷ (codes "counts" ∷ (codes "seen" ∷ (codes "raw" ∷ []))))) _ _ refl
        (fields_cons s (codes "name") _ _ _ (λ j. ⟦<String as Deserialize<'de, R>>⟧.reads s.human R.lends j v.name) (string_bytes v.name ≡ []) _
        (string_row s (string_bytes v.name)) (fields_cons s (codes "all") _ _ _ (λ j. ⟦<Vec<u16> as Deserialize<'de, R>>⟧.reads s.human R.lends j v.list)
        (v.list.items ≡ []) _ (slice_row s _ (λ ms. ReadsEach (⟦<u16 as Deserialize<'de, R>>⟧.reads s.human R.lends) ms v.list.items)
        (each_row s (λ x. ⟦<u16 as Serialize>⟧.data_of x s.human) ⟦<u16 as Serialize>⟧.is_value (⟦<u16 as Deserialize<'de, R>>⟧.reads s.human R.lends)
        (λ x4 h4. (unsigned_row_16 s x4 h4)) v.list.items fits.1))
        (fields_cons s (codes "counts") _ _ _ (λ j. ⟦<BTreeMap<String, u64> as Deserialize<'de, R>>⟧.reads s.human R.lends j v.counts)
        (v.counts.entries ≡ []) _ (map_row s (λ x. ⟦<String as Serialize>⟧.data_of x s.human) (λ x. ⟦<u64 as Serialize>⟧.data_of x s.human)
        ⟦<String as Serialize>⟧.is_value ⟦<u64 as Serialize>⟧.is_value (⟦<String as Deserialize<'de, R>>⟧.reads s.human R.lends)
        (⟦<u64 as Deserialize<'de, R>>⟧.reads s.human R.lends) (λ x5 h5. (string_row s (string_bytes x5))) (λ x6 h6. (unsigned_row_64 s x6 h6))
        (on_total (λ x. string_bytes x) nat_list_cmp_total) v.counts.entries fits.2.1 fits.2.0)
        (fields_cons s (codes "seen") _ _ _ (λ j. ⟦<BTreeSet<u32> as Deserialize<'de, R>>⟧.reads s.human R.lends j v.seen) (v.seen.keys ≡ []) _
        (set_row s (λ x. ⟦<u32 as Serialize>⟧.data_of x s.human) ⟦<u32 as Serialize>⟧.is_value (⟦<u32 as Deserialize<'de, R>>⟧.reads s.human R.lends)
        (λ x7 h7. (unsigned_row_32 s x7 h7)) ⟦<u32 as Ord>⟧.cmp v.seen.keys fits.3.1 fits.3.0)
        (fields_cons s (codes "raw") _ _ _ (λ j. ⟦<ByteBuf as Deserialize<'de, R>>⟧.reads s.human R.lends j v.raw) (buffer_bytes v.raw ≡ []) _
        (buffer_row s (buffer_bytes v.raw)) (fields_none s)))))) };

    ghost same = { λ v w. ⟦<String as RoundTrip<'de, R>>⟧.same v.name w.name × ⟦<Vec<u16> as RoundTrip<'de, R>>⟧.same v.list w.list
        × ⟦<BTreeMap<String, u64> as RoundTrip<'de, R>>⟧.same v.counts w.counts × ⟦<BTreeSet<u32> as RoundTrip<'de, R>>⟧.same v.seen w.seen
        × ⟦<ByteBuf as RoundTrip<'de, R>>⟧.same v.raw w.raw };

    ghost alike = { λ human v w h i. structure_of ((codes "name", (text_alike (string_bytes v.name) (string_bytes w.name) h.0 i))
        ∷ ((
          codes "all",
          (slice_alike ⟦<u16 as RoundTrip<'de, R>>⟧.same (λ x. ⟦<u16 as Serialize>⟧.data_of x human)
              (λ x5 yx5 h5 i. (⟦<u16 as Serialize>⟧.data_of (h5 i) human)) v.list.items w.list.items h.1 i),
        )
        ∷ ((
          codes "counts",
          (mapping_alike ⟦<String as RoundTrip<'de, R>>⟧.same (λ x. ⟦<String as Serialize>⟧.data_of x human)
              (λ x6 yx6 h6 i. (text_alike (string_bytes x6) (string_bytes yx6) h6 i)) ⟦<u64 as RoundTrip<'de, R>>⟧.same
              (λ x. ⟦<u64 as Serialize>⟧.data_of x human) (λ x7 yx7 h7 i. (⟦<u64 as Serialize>⟧.data_of (h7 i) human)) v.counts.entries w.counts.entries h.2 i),
        )
        ∷ ((
          codes "seen",
          (sequence_alike ⟦<u32 as RoundTrip<'de, R>>⟧.same (λ x. ⟦<u32 as Serialize>⟧.data_of x human)
              (λ x8 yx8 h8 i. (⟦<u32 as Serialize>⟧.data_of (h8 i) human)) v.seen.keys w.seen.keys h.3 i),
        )
        ∷ ((codes "raw", (bytes_alike (buffer_bytes v.raw) (buffer_bytes w.raw) h.4 i)) ∷ []))))) };

    ghost only = { λ s v fits. lowers_then s _ _ (λ m. (w : _) → (⟦<Lists as Deserialize<'de, R>>⟧.reads s.human R.lends) m w
        → ⟦<String as RoundTrip<'de, R>>⟧.same v.name w.name × ⟦<Vec<u16> as RoundTrip<'de, R>>⟧.same v.list w.list
        × ⟦<BTreeMap<String, u64> as RoundTrip<'de, R>>⟧.same v.counts w.counts × ⟦<BTreeSet<u32> as RoundTrip<'de, R>>⟧.same v.seen w.seen
        × ⟦<ByteBuf as RoundTrip<'de, R>>⟧.same v.raw w.raw)
        (structure_row s (codes "name" ∷ (codes "all" ∷ (codes "counts" ∷ (codes "seen" ∷ (codes "raw" ∷ []))))) _ _ refl
        (fields_cons s (codes "name") _ _ _ (λ j. Only (⟦<String as Deserialize<'de, R>>⟧.reads s.human R.lends) ⟦<String as RoundTrip<'de, R>>⟧.same j
        v.name) ⊥ _ (string_only s (λ w. string_bytes w) (string_bytes v.name))
        (fields_cons s (codes "all") _ _ _ (λ j. Only (⟦<Vec<u16> as Deserialize<'de, R>>⟧.reads s.human R.lends) ⟦<Vec<u16> as RoundTrip<'de, R>>⟧.same j
        v.list) ⊥ _ (list_only s _ (λ w. w.items) (⟦<u16 as Deserialize<'de, R>>⟧.reads s.human R.lends) ⟦<u16 as RoundTrip<'de, R>>⟧.same v.list.items
        (slice_row s _ (λ ms. ReadsEach (Only (⟦<u16 as Deserialize<'de, R>>⟧.reads s.human R.lends) ⟦<u16 as RoundTrip<'de, R>>⟧.same) ms v.list.items)
        (each_row s (λ x. ⟦<u16 as Serialize>⟧.data_of x s.human) ⟦<u16 as Serialize>⟧.is_value
        (Only (⟦<u16 as Deserialize<'de, R>>⟧.reads s.human R.lends) ⟦<u16 as RoundTrip<'de, R>>⟧.same) (λ x1 h1. (unsigned_only s 65535 x1)) v.list.items
        fits.1))) (fields_cons s (codes "counts") _ _ _ (λ j. Only (⟦<BTreeMap<String, u64> as Deserialize<'de, R>>⟧.reads s.human R.lends)
        ⟦<BTreeMap<String, u64> as RoundTrip<'de, R>>⟧.same j v.counts) ⊥ _
        (entries_only (⟦<String as Deserialize<'de, R>>⟧.reads s.human R.lends) (⟦<u64 as Deserialize<'de, R>>⟧.reads s.human R.lends)
        ⟦<String as RoundTrip<'de, R>>⟧.same ⟦<u64 as RoundTrip<'de, R>>⟧.same s _ (λ w. w.entries) {cmp = ⟦<String as Ord>⟧.cmp}
        (on_total (λ x. string_bytes x) nat_list_cmp_total) (λ x y e. tied (slice_cmp nat_cmp) nat_list_cmp_total (string_bytes x) (string_bytes y) e)
        v.counts.entries fits.2.1 (pairs_row s (λ x. ⟦<String as Serialize>⟧.data_of x s.human) (λ x. ⟦<u64 as Serialize>⟧.data_of x s.human)
        ⟦<String as Serialize>⟧.is_value ⟦<u64 as Serialize>⟧.is_value
        (Only (⟦<String as Deserialize<'de, R>>⟧.reads s.human R.lends) ⟦<String as RoundTrip<'de, R>>⟧.same)
        (Only (⟦<u64 as Deserialize<'de, R>>⟧.reads s.human R.lends) ⟦<u64 as RoundTrip<'de, R>>⟧.same)
        (λ x2 h2. (string_only s (λ w. string_bytes w) (string_bytes x2))) (λ x3 h3. (unsigned_only s 18446744073709551615 x3)) v.counts.entries fits.2.0))
        (fields_cons s (codes "seen") _ _ _ (λ j. Only (⟦<BTreeSet<u32> as Deserialize<'de, R>>⟧.reads s.human R.lends)
        ⟦<BTreeSet<u32> as RoundTrip<'de, R>>⟧.same j v.seen) ⊥ _
        (set_only s _ (λ w. w.keys) {cmp = ⟦<u32 as Ord>⟧.cmp} (Prim.search (comparing, rules)) (⟦<u32 as Deserialize<'de, R>>⟧.reads s.human R.lends)
        ⟦<u32 as RoundTrip<'de, R>>⟧.same (λ x y e. tied ⟦<u32 as Ord>⟧.cmp (Prim.search (comparing, rules)) x y e) v.seen.keys fits.3.1
        (sequence_row s _ (λ ms. ReadsEach (Only (⟦<u32 as Deserialize<'de, R>>⟧.reads s.human R.lends) ⟦<u32 as RoundTrip<'de, R>>⟧.same) ms v.seen.keys)
        (each_row s (λ x. ⟦<u32 as Serialize>⟧.data_of x s.human) ⟦<u32 as Serialize>⟧.is_value
        (Only (⟦<u32 as Deserialize<'de, R>>⟧.reads s.human R.lends) ⟦<u32 as RoundTrip<'de, R>>⟧.same) (λ x4 h4. (unsigned_only s 4294967295 x4))
        v.seen.keys fits.3.0))) (fields_cons s (codes "raw") _ _ _
        (λ j. Only (⟦<ByteBuf as Deserialize<'de, R>>⟧.reads s.human R.lends) ⟦<ByteBuf as RoundTrip<'de, R>>⟧.same j v.raw) ⊥ _
        (buffer_only s (λ w. buffer_bytes w) (buffer_bytes v.raw)) (fields_none s)))))))
        (λ m q w r. fields_both (codes "name" ∷ (codes "all" ∷ (codes "counts" ∷ (codes "seen" ∷ (codes "raw" ∷ []))))) _ _ _ m q r
        (λ ks i j. let x = field_only (⟦<String as Deserialize<'de, R>>⟧.reads s.human R.lends) ⟦<String as RoundTrip<'de, R>>⟧.same v.name w.name _ _ _ _
        (field_only (⟦<Vec<u16> as Deserialize<'de, R>>⟧.reads s.human R.lends) ⟦<Vec<u16> as RoundTrip<'de, R>>⟧.same v.list w.list _ _ _ _
        (field_only (⟦<BTreeMap<String, u64> as Deserialize<'de, R>>⟧.reads s.human R.lends) ⟦<BTreeMap<String, u64> as RoundTrip<'de, R>>⟧.same v.counts
        w.counts _ _ _ _ (field_only (⟦<BTreeSet<u32> as Deserialize<'de, R>>⟧.reads s.human R.lends) ⟦<BTreeSet<u32> as RoundTrip<'de, R>>⟧.same v.seen
        w.seen _ _ _ _ (last_field (⟦<ByteBuf as Deserialize<'de, R>>⟧.reads s.human R.lends) ⟦<ByteBuf as RoundTrip<'de, R>>⟧.same v.raw w.raw _)))) ks i j
        in (x.0, x.1.0, x.1.1.0, x.1.1.1.0, x.1.1.1.1))) };
}

impl NeverNil for Lists {
    ghost never_nil = { λ s v. structure_other s _ };
}

impl<'de, R: ReadSlice<'de>> EndsInside<'de, R> for Lists {
    ghost ends_inside = { fields_inside _ _ _ (
      string_inside,
      (
        (each_inside ⟦<u16 as Deserialize<'de, R>>⟧.reads ⟦<u16 as Deserialize<'de, R>>⟧.refuses number_inside),
        (
          (map_inside ⟦<String as Deserialize<'de, R>>⟧.reads ⟦<u64 as Deserialize<'de, R>>⟧.reads ⟦<String as Deserialize<'de, R>>⟧.refuses
              ⟦<u64 as Deserialize<'de, R>>⟧.refuses string_inside number_inside),
          ((each_inside ⟦<u32 as Deserialize<'de, R>>⟧.reads ⟦<u32 as Deserialize<'de, R>>⟧.refuses number_inside), (buffer_inside, tt)),
        ),
      ),
    ) };
}

impl Serialize for Page {
    ghost data_of = { λ v human. structure_of ((codes "title", ⟦<String as Serialize>⟧.data_of v.title human)
        ∷ ((codes "edition", ⟦<u16 as Serialize>⟧.data_of v.edition human) ∷ [])) };

    ghost is_value = { λ v. ⟦<String as Serialize>⟧.is_value v.title × ⟦<u16 as Serialize>⟧.is_value v.edition };

    ghost takes_memory = { λ s. one_of (⟦<String as Serialize>⟧.takes_memory s ∷ (⟦<u16 as Serialize>⟧.takes_memory s ∷ [])) };

    ghost refuses = { λ v. OfParts ⊥ (⟦<String as Serialize>⟧.refuses v.title ∷ (⟦<u16 as Serialize>⟧.refuses v.edition ∷ [])) };

    fn serialize<W: Sink, C: SerializerConfig>(
        &self,
        se: &mut Serializer<W, C>,
    ) -> Result<(), rmp_encode::Error> {
        let parts = rmp_encode::Both {
            first: &self.title,
            second: &self.edition,
        };
        se.serialize_fields("Page", &["title", "edition"], &parts)
    }

    #[tactic(auto, using(rmp_encode::proofs::Fields::structure_no_byte))]
    fn as_u8(&self, _human: bool) -> Option<u8> {
        None
    }
}

impl<'de, R: ReadSlice<'de>> Deserialize<'de, R> for Page {
    ghost reads = { λ human lends m v. (OfFields (codes "title" ∷ (codes "edition" ∷ []))
        (Field (λ j. ⟦<String as Deserialize<'de, R>>⟧.reads human lends j v.title) (Absent ⟦<String as Deserialize<'de, R>>⟧.absent v.title)
        (Field (λ j. ⟦<u16 as Deserialize<'de, R>>⟧.reads human lends j v.edition) (v.edition ≡ 1) NoField)) m) × (v.views ≡ 0) × (v.rank ≡ negsuc 0)
        × (v.links.items ≡ []) × (v.seen ≡ None) };

    ghost absent = { None };

    ghost refuses = { RefusesFields (codes "title" ∷ (codes "edition" ∷ []))
        (is_none ⟦<String as Deserialize<'de, R>>⟧.absent ∷ (is_none ⟦<Defaulted<u16> as Deserialize<'de, R>>⟧.absent ∷ []))
        (part_of ⟦<String as Deserialize<'de, R>>⟧.reads ⟦<String as Deserialize<'de, R>>⟧.refuses
        ∷ (part_of ⟦<Defaulted<u16> as Deserialize<'de, R>>⟧.reads ⟦<Defaulted<u16> as Deserialize<'de, R>>⟧.refuses ∷ [])) };

    #[inline(always)]
    fn deserialize<C: SerializerConfig>(
        de: &mut Deserializer<R, C>,
    ) -> Result<Page, rmp_decode::Error> {
        let read: Result<(String, (Defaulted<u16>, ())), rmp_decode::Error> =
            rmp_decode::read_fields_2(de, &["title", "edition"]);
        match read {
            Ok(parts) => {
                let (title, (edition, ())) = parts;
                let edition = edition.value.unwrap_or(1);
                return Ok(Page {
                    title,
                    edition,
                    views: 0,
                    rank: -1,
                    links: Vec::new(de.alloc()),
                    seen: None,
                });
            }
            Err(e) => return Err(e),
        }
    }

    fn missing() -> Option<Page> {
        None
    }
}

impl<'de, R: ReadSlice<'de>> EndsInside<'de, R> for Page {
    ghost ends_inside = { fields_inside _ _ _ (string_inside, (number_inside, tt)) };
}

impl Serialize for Once {
    ghost data_of = { λ v human. structure_of ((codes "times", ⟦<u8 as Serialize>⟧.data_of v.times human) ∷ []) };

    ghost is_value = { λ v. ⟦<u8 as Serialize>⟧.is_value v.times };

    ghost takes_memory = { λ s. one_of (⟦<u8 as Serialize>⟧.takes_memory s ∷ []) };

    ghost refuses = { λ v. OfParts ⊥ (⟦<u8 as Serialize>⟧.refuses v.times ∷ []) };

    fn serialize<W: Sink, C: SerializerConfig>(
        &self,
        se: &mut Serializer<W, C>,
    ) -> Result<(), rmp_encode::Error> {
        let parts = rmp_encode::One { first: &self.times };
        se.serialize_fields("Once", &["times"], &parts)
    }

    #[tactic(auto, using(rmp_encode::proofs::Fields::structure_no_byte))]
    fn as_u8(&self, _human: bool) -> Option<u8> {
        None
    }
}

impl<'de, R: ReadSlice<'de>> Deserialize<'de, R> for Once {
    ghost reads = { λ human lends m v. OfFields (codes "times" ∷ [])
        (Field (λ j. ⟦<u8 as Deserialize<'de, R>>⟧.reads human lends j v.times) (v.times ≡ 3) NoField) m };

    ghost absent = { None };

    ghost refuses = { RefusesFields (codes "times" ∷ []) ⟦<(Defaulted<u8>, ()) as ReadFields<'de, R>>⟧.needed
        ⟦<(Defaulted<u8>, ()) as ReadFields<'de, R>>⟧.parts };

    #[inline(always)]
    fn deserialize<C: SerializerConfig>(
        de: &mut Deserializer<R, C>,
    ) -> Result<Once, rmp_decode::Error> {
        let read: Result<(Defaulted<u8>, ()), rmp_decode::Error> = de.deserialize_fields(&[
            "times",
        ]);
        match read {
            Ok(parts) => {
                let (times, ()) = parts;
                let times = times.value.unwrap_or(3);
                return Ok(Once { times });
            }
            Err(e) => return Err(e),
        }
    }

    fn missing() -> Option<Once> {
        None
    }
}

impl<'de, R: ReadSlice<'de>> RoundTrip<'de, R> for Once {
    ghost has_data = { λ human v. structure_all ((codes "times", ⟦<u8 as Serialize>⟧.data_of v.times human) ∷ []) (refl, tt) };

    ghost round = { λ lent s v fits. structure_row s (codes "times" ∷ []) _ _ refl
        (fields_cons s (codes "times") _ _ _ (λ j. ⟦<u8 as Deserialize<'de, R>>⟧.reads s.human R.lends j v.times) (v.times ≡ 3) _ (byte_row s v.times fits)
        (fields_none s)) };

    ghost same = { λ v w. ⟦<u8 as RoundTrip<'de, R>>⟧.same v.times w.times };

    ghost alike = { λ human v w h i. structure_of ((codes "times", (⟦<u8 as Serialize>⟧.data_of (h i) human)) ∷ []) };

    ghost only = { λ s v fits. lowers_then s _ _ (λ m. (w : _) → (⟦<Once as Deserialize<'de, R>>⟧.reads s.human R.lends) m w
        → ⟦<u8 as RoundTrip<'de, R>>⟧.same v.times w.times)
        (structure_row s (codes "times" ∷ []) _ _ refl (fields_cons s (codes "times") _ _ _
        (λ j. Only (⟦<u8 as Deserialize<'de, R>>⟧.reads s.human R.lends) ⟦<u8 as RoundTrip<'de, R>>⟧.same j v.times) ⊥ _ (byte_only s v.times)
        (fields_none s))) (λ m q w r. fields_both (codes "times" ∷ []) _ _ _ m q r
        (last_field (⟦<u8 as Deserialize<'de, R>>⟧.reads s.human R.lends) ⟦<u8 as RoundTrip<'de, R>>⟧.same v.times w.times _)) };
}

impl NeverNil for Once {
    ghost never_nil = { λ s v. structure_other s _ };
}

impl<'de, R: ReadSlice<'de>> EndsInside<'de, R> for Once {
    ghost ends_inside = { fields_inside _ _ _ (number_inside, tt) };
}

// The text that was read, or a copy of this one.
fn text_or(
    alloc: std::alloc::Global,
    read: Option<String>,
    text: &str,
) -> Result<String, std::alloc::AllocError>
    ensures { IfOk result (λ v. MatchOption read (string_bytes v ≡ text.now) (λ x. v ≡ x)) }
{
    match read {
        Some(found) => Ok(found),
        None => String::from_str(alloc, text),
    }
}
