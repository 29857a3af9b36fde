//! How the types of rows.rt are written and read. Written by tools/derive.py.
//!
//! Sum of Row: e7e5ce27.
//! Sum of Line: b887d294.
//! Sum of Papers: 686e1e1e.
ghost use Rattle.rmp_decode.specs.Arrays.{Exactly};
ghost use Rattle.rmp_decode.specs.EnumRefusing.{RefusesEnum, no_content, with_content};
ghost use Rattle.rmp_decode.specs.FieldRefusing.{RefusesFields};
ghost use Rattle.rmp_decode.specs.Fields.{OfFields, Field, Absent, NoField};
ghost use Rattle.rmp_decode.specs.Refusing.{RefusesTuple, part_of};
ghost use Rattle.rmp_decode.specs.Rows.{AndThen, NoMore, ReadsEach};
ghost use Rattle.rmp_decode.specs.Seq.{OfRow};
ghost use Rattle.rmp_decode.specs.Variants.{OfVariant, Case, NoCase, Bare, Content};
ghost use Rattle.rmp_encode.specs.Data.{unit_variant};
ghost use Rattle.rmp_encode.specs.Markers.{value_of};
ghost use Rattle.rmp_encode.specs.Refusals.{OfParts, OfSink};
ghost use Rattle.rmp_encode.specs.Sizes.{one_of};
ghost use Rattle.rmp_encode.specs.Trees.{sequence_of, structure_of, tuple_variant_of, tuple_of};
ghost use Rattle.rmp_ends.specs.BufferEnds.{buffer_inside};
ghost use Rattle.rmp_ends.specs.EnumEnds.{enum_inside, no_content_inside, with_content_inside};
ghost use Rattle.rmp_ends.specs.FieldEnds.{fields_inside};
ghost use Rattle.rmp_ends.specs.LeafEnds.{kind_inside, number_inside, nil_inside, signed128_inside, char_inside, string_inside};
ghost use Rattle.rmp_ends.specs.MapEnds.{map_inside};
ghost use Rattle.rmp_ends.specs.RowEnds.{array_inside, each_inside, option_inside, tuple_inside};
ghost use Rattle.rmp_round_trip.specs.AlikeData.{array_alike, bytes_alike, float64_alike, mapping_alike, option_alike};
ghost use Rattle.rmp_round_trip.specs.AlikeData.{slice_alike, text_alike, unit_alike, variant_alike};
ghost use Rattle.rmp_round_trip.specs.AlikeOrder.{tied};
ghost use Rattle.rmp_round_trip.specs.LeafRounds.{byte_row, unsigned_row_16, unsigned_row_32, unsigned_row_64, signed_row_8, signed_row_16, signed_row_32};
ghost use Rattle.rmp_round_trip.specs.LeafRounds.{truth_row, unit_row, float64_row, char_row, string_row, buffer_row, pos_other};
ghost use Rattle.rmp_round_trip.specs.MapRounds.{mapping_some, map_row, pairs_row};
ghost use Rattle.rmp_round_trip.specs.OnlyFields.{AtPlace, AnyContent, content_row, field_only, fields_both, last_field, variant_both};
ghost use Rattle.rmp_round_trip.specs.OnlyLeaves.{float64_only, signed128_only, char_only, string_only, buffer_only};
ghost use Rattle.rmp_round_trip.specs.OnlyLeaves.{unit_only, truth_only, byte_only, unsigned_only, signed_only};
ghost use Rattle.rmp_round_trip.specs.OnlyMaps.{entries_only};
ghost use Rattle.rmp_round_trip.specs.OnlyRows.{array_only, item_only, last_only, list_only, lowers_then, option_only, row_both};
ghost use Rattle.rmp_round_trip.specs.RoundTrip.{Only};
ghost use Rattle.rmp_round_trip.specs.Rounds.{each_some, each_row, rows_map, option_some, option_row, slice_some, slice_row};
ghost use Rattle.rmp_round_trip.specs.Rounds.{tuple_some, tuple_row, sequence_row, sequence_other, rows_none, rows_cons};
ghost use Rattle.rmp_round_trip.specs.StructRounds.{sequence_all, tuple_all, tuple_variant_all, structure_all};
ghost use Rattle.rmp_round_trip.specs.StructRounds.{structure_row, structure_other, fields_none, fields_cons};
ghost use Rattle.rmp_round_trip.specs.VariantRounds.{bare_row, tuple_variant_row, bare_other, tuple_variant_other};
ghost use Rattle.rmp_round_trip.specs.WideRounds.{signed128_row};
ghost use Rattle.rmp_wire.specs.Types.{buffer_bytes};
ghost use Rattle.std.proofs.Common.{refl};
ghost use Rattle.std.proofs.lemmas.Cmp.{on_total, nat_list_cmp_total};
ghost use Rattle.std.specs.Cmp.Lexicographic.{slice_cmp};
ghost use Rattle.std.specs.Option.{is_none};
ghost use Rattle.std.specs.Ordering.{nat_cmp};
ghost use Rattle.std.specs.Prelude.{◌≡◌, ◌∷◌, [], None, Some, codes, false, ⊤, string_bytes, pos, negsuc};
ghost use Rattle.test_wide.specs.declared.rows.Line.TheVariants as the_line;

use super::{BTreeMap, ByteBuf, F64Bits, Line, Papers, Row, Spot};
use rmp_decode::{Deserialize, Deserializer};
use rmp_encode::{Elements, Serialize, Serializer};
use rmp_ends::EndsInside;
use rmp_round_trip::{NeverNil, RoundTrip};
use rmp_wire::config::SerializerConfig;
use rmp_wire::{ReadSlice, Sink};

impl Serialize for Row {
    ghost data_of = { λ v human. sequence_of (⟦<u64 as Serialize>⟧.data_of v.0 human
        ∷ (⟦<String as Serialize>⟧.data_of v.1 human ∷ (⟦<i32 as Serialize>⟧.data_of v.2 human
        ∷ (⟦<Option<u16> as Serialize>⟧.data_of v.3 human ∷
        (⟦<bool as Serialize>⟧.data_of v.4 human ∷ (⟦<char as Serialize>⟧.data_of v.5 human
        ∷ (⟦<F64Bits as Serialize>⟧.data_of v.6 human ∷ (⟦<Vec<u16> as Serialize>⟧.data_of v.7 human
        ∷ (⟦<[u16; 3] as Serialize>⟧.data_of v.8 human ∷ (⟦<Spot as Serialize>⟧.data_of v.9 human
        ∷ (⟦<(u8, String) as Serialize>⟧.data_of v.10 human
        ∷ (⟦<ByteBuf as Serialize>⟧.data_of v.11 human ∷ (⟦<BTreeMap<String, u32> as Serialize>⟧.data_of v.12 human
        ∷ (⟦<i128 as Serialize>⟧.data_of v.13 human ∷ (⟦<() as Serialize>⟧.data_of v.14 human
        ∷ (⟦<Option<Spot> as Serialize>⟧.data_of v.15 human ∷ [])))))))))))))))) };

    ghost is_value = { λ v. ⟦<u64 as Serialize>⟧.is_value v.0 × ⟦<String as Serialize>⟧.is_value v.1 × ⟦<i32 as Serialize>⟧.is_value v.2
        × ⟦<Option<u16> as Serialize>⟧.is_value v.3 × ⟦<bool as Serialize>⟧.is_value v.4 × ⟦<char as Serialize>⟧.is_value v.5
        × ⟦<F64Bits as Serialize>⟧.is_value v.6 × ⟦<Vec<u16> as Serialize>⟧.is_value v.7 × ⟦<[u16; 3] as Serialize>⟧.is_value v.8
        × ⟦<Spot as Serialize>⟧.is_value v.9 × ⟦<(u8, String) as Serialize>⟧.is_value v.10 × ⟦<ByteBuf as Serialize>⟧.is_value v.11
        × ⟦<BTreeMap<String, u32> as Serialize>⟧.is_value v.12 × ⟦<i128 as Serialize>⟧.is_value v.13 × ⟦<() as Serialize>⟧.is_value v.14
        × ⟦<Option<Spot> as Serialize>⟧.is_value v.15 };

    ghost takes_memory = { λ s. one_of (⟦<u64 as Serialize>⟧.takes_memory s
        ∷ (⟦<String as Serialize>⟧.takes_memory s ∷ (⟦<i32 as Serialize>⟧.takes_memory s
        ∷ (⟦<Option<u16> as Serialize>⟧.takes_memory s ∷ (⟦<bool as Serialize>⟧.takes_memory s
        ∷ (⟦<char as Serialize>⟧.takes_memory s ∷ (⟦<F64Bits as Serialize>⟧.takes_memory s
        ∷ (⟦<Vec<u16> as Serialize>⟧.takes_memory s ∷ (⟦<[u16; 3] as Serialize>⟧.takes_memory s
        ∷ (⟦<Spot as Serialize>⟧.takes_memory s ∷ (⟦<(u8, String) as Serialize>⟧.takes_memory s
        ∷ (⟦<ByteBuf as Serialize>⟧.takes_memory s ∷ (⟦<BTreeMap<String, u32> as Serialize>⟧.takes_memory s
        ∷ (⟦<i128 as Serialize>⟧.takes_memory s ∷ (⟦<() as Serialize>⟧.takes_memory s ∷ (⟦<Option<Spot> as Serialize>⟧.takes_memory s ∷ [])))))))))))))))) };

    ghost refuses = { λ v. OfParts ⊥ (⟦<u64 as Serialize>⟧.refuses v.0
        ∷ (⟦<String as Serialize>⟧.refuses v.1 ∷ (⟦<i32 as Serialize>⟧.refuses v.2
        ∷ (⟦<Option<u16> as Serialize>⟧.refuses v.3 ∷ (⟦<bool as Serialize>⟧.refuses v.4
        ∷ (⟦<char as Serialize>⟧.refuses v.5 ∷ (⟦<F64Bits as Serialize>⟧.refuses v.6
        ∷ (⟦<Vec<u16> as Serialize>⟧.refuses v.7 ∷ (⟦<[u16; 3] as Serialize>⟧.refuses v.8
        ∷ (⟦<Spot as Serialize>⟧.refuses v.9 ∷ (⟦<(u8, String) as Serialize>⟧.refuses v.10
        ∷ (⟦<ByteBuf as Serialize>⟧.refuses v.11 ∷ (⟦<BTreeMap<String, u32> as Serialize>⟧.refuses v.12
        ∷ (⟦<i128 as Serialize>⟧.refuses v.13 ∷ (⟦<() as Serialize>⟧.refuses v.14 ∷ (⟦<Option<Spot> as Serialize>⟧.refuses v.15 ∷ [])))))))))))))))) };

    fn serialize<W: Sink, C: SerializerConfig>(
        &self,
        se: &mut Serializer<W, C>,
    ) -> Result<(), rmp_encode::Error> {
        let parts = SixteenParts {
            first: &self.0,
            second: &self.1,
            third: &self.2,
            fourth: &self.3,
            fifth: &self.4,
            sixth: &self.5,
            seventh: &self.6,
            eighth: &self.7,
            ninth: &self.8,
            tenth: &self.9,
            eleventh: &self.10,
            twelfth: &self.11,
            thirteenth: &self.12,
            fourteenth: &self.13,
            fifteenth: &self.14,
            sixteenth: &self.15,
        };
        se.serialize_elements("Row", &parts)
    }

    #[tactic(auto, using(rmp_encode::proofs::Lists::sequence_no_byte))]
    fn as_u8(&self, _human: bool) -> Option<u8> {
        None
    }
}

impl<'de, R: ReadSlice<'de>> Deserialize<'de, R> for Row {
    ghost reads = { λ human lends m v. OfRow (AndThen (λ j. ⟦<u64 as Deserialize<'de, R>>⟧.reads human lends j v.0)
        (AndThen (λ j. ⟦<String as Deserialize<'de, R>>⟧.reads human lends j v.1)
        (AndThen (λ j. ⟦<i32 as Deserialize<'de, R>>⟧.reads human lends j v.2)
        (AndThen (λ j. ⟦<Option<u16> as Deserialize<'de, R>>⟧.reads human lends j v.3)
        (AndThen (λ j. ⟦<bool as Deserialize<'de, R>>⟧.reads human lends j v.4)
        (AndThen (λ j. ⟦<char as Deserialize<'de, R>>⟧.reads human lends j v.5)
        (AndThen (λ j. ⟦<F64Bits as Deserialize<'de, R>>⟧.reads human lends j v.6)
        (AndThen (λ j. ⟦<Vec<u16> as Deserialize<'de, R>>⟧.reads human lends j v.7)
        (AndThen (λ j. ⟦<[u16; 3] as Deserialize<'de, R>>⟧.reads human lends j v.8)
        (AndThen (λ j. ⟦<Spot as Deserialize<'de, R>>⟧.reads human lends j v.9)
        (AndThen (λ j. ⟦<(u8, String) as Deserialize<'de, R>>⟧.reads human lends j v.10)
        (AndThen (λ j. ⟦<ByteBuf as Deserialize<'de, R>>⟧.reads human lends j v.11)
        (AndThen (λ j. ⟦<BTreeMap<String, u32> as Deserialize<'de, R>>⟧.reads human lends j v.12)
        (AndThen (λ j. ⟦<i128 as Deserialize<'de, R>>⟧.reads human lends j v.13)
        (AndThen (λ j. ⟦<() as Deserialize<'de, R>>⟧.reads human lends j v.14)
        (AndThen (λ j. ⟦<Option<Spot> as Deserialize<'de, R>>⟧.reads human lends j v.15) NoMore)))))))))))))))) m };

    ghost absent = { None };

    ghost refuses = { RefusesTuple (part_of ⟦<u64 as Deserialize<'de, R>>⟧.reads ⟦<u64 as Deserialize<'de, R>>⟧.refuses
        ∷ (part_of ⟦<String as Deserialize<'de, R>>⟧.reads ⟦<String as Deserialize<'de, R>>⟧.refuses
        ∷ (part_of ⟦<i32 as Deserialize<'de, R>>⟧.reads ⟦<i32 as Deserialize<'de, R>>⟧.refuses
        ∷ (part_of ⟦<Option<u16> as Deserialize<'de, R>>⟧.reads ⟦<Option<u16> as Deserialize<'de, R>>⟧.refuses
        ∷ (part_of ⟦<bool as Deserialize<'de, R>>⟧.reads ⟦<bool as Deserialize<'de, R>>⟧.refuses
        ∷ (part_of ⟦<char as Deserialize<'de, R>>⟧.reads ⟦<char as Deserialize<'de, R>>⟧.refuses
        ∷ (part_of ⟦<F64Bits as Deserialize<'de, R>>⟧.reads ⟦<F64Bits as Deserialize<'de, R>>⟧.refuses
        ∷ (part_of ⟦<Vec<u16> as Deserialize<'de, R>>⟧.reads ⟦<Vec<u16> as Deserialize<'de, R>>⟧.refuses
        ∷ (part_of ⟦<[u16; 3] as Deserialize<'de, R>>⟧.reads ⟦<[u16; 3] as Deserialize<'de, R>>⟧.refuses
        ∷ (part_of ⟦<Spot as Deserialize<'de, R>>⟧.reads ⟦<Spot as Deserialize<'de, R>>⟧.refuses
        ∷ (part_of ⟦<(u8, String) as Deserialize<'de, R>>⟧.reads ⟦<(u8, String) as Deserialize<'de, R>>⟧.refuses
        ∷ (part_of ⟦<ByteBuf as Deserialize<'de, R>>⟧.reads ⟦<ByteBuf as Deserialize<'de, R>>⟧.refuses
        ∷ (part_of ⟦<BTreeMap<String, u32> as Deserialize<'de, R>>⟧.reads ⟦<BTreeMap<String, u32> as Deserialize<'de, R>>⟧.refuses
        ∷ (part_of ⟦<i128 as Deserialize<'de, R>>⟧.reads ⟦<i128 as Deserialize<'de, R>>⟧.refuses
        ∷ (part_of ⟦<() as Deserialize<'de, R>>⟧.reads ⟦<() as Deserialize<'de, R>>⟧.refuses
        ∷ (part_of ⟦<Option<Spot> as Deserialize<'de, R>>⟧.reads ⟦<Option<Spot> as Deserialize<'de, R>>⟧.refuses ∷ [])))))))))))))))) };

    fn deserialize<C: SerializerConfig>(
        de: &mut Deserializer<R, C>,
    ) -> Result<Row, rmp_decode::Error> {
        let read: Result<
            (
                u64,
                String,
                i32,
                Option<u16>,
                (
                    bool,
                    char,
                    F64Bits,
                    Vec<u16>,
                    (
                        [u16; 3],
                        Spot,
                        (u8, String),
                        ByteBuf,
                        (BTreeMap<String, u32>, i128, (), Option<Spot>, ()),
                    ),
                ),
            ),
            rmp_decode::Error,
        > = de.tuple_parts(16);
        match read {
            Ok(parts) => {
                let (first, second, third, fourth, others) = parts;
                let (fifth, sixth, seventh, eighth, others) = others;
                let (ninth, tenth, eleventh, twelfth, others) = others;
                let (thirteenth, fourteenth, fifteenth, sixteenth, ()) = others;
                return Ok(Row(
                    first, second, third, fourth, fifth, sixth, seventh, eighth, ninth, tenth,
                    eleventh, twelfth, thirteenth, fourteenth, fifteenth, sixteenth,
                ));
            }
            Err(e) => return Err(e),
        }
    }

    fn missing() -> Option<Row> {
        None
    }
}

impl<'de, R: ReadSlice<'de>> RoundTrip<'de, R> for Row {
    ghost use Rattle.test_mixed.specs.contracts.mixed.derived.SpotNeverNil.TheImpl.Laws as spot_other;
    ghost use Rattle.test_mixed.specs.contracts.mixed.derived.SpotRoundTrip.TheImpl.Laws as spot_rounds;
    ghost use mir.Syntax.{given};

    ghost has_data = { λ human v. sequence_all (⟦<u64 as Serialize>⟧.data_of v.0 human
        ∷ (⟦<String as Serialize>⟧.data_of v.1 human ∷ (⟦<i32 as Serialize>⟧.data_of v.2 human
        ∷ (⟦<Option<u16> as Serialize>⟧.data_of v.3 human ∷
        (⟦<bool as Serialize>⟧.data_of v.4 human ∷ (⟦<char as Serialize>⟧.data_of v.5 human
        ∷ (⟦<F64Bits as Serialize>⟧.data_of v.6 human ∷ (⟦<Vec<u16> as Serialize>⟧.data_of v.7 human
        ∷ (⟦<[u16; 3] as Serialize>⟧.data_of v.8 human ∷ (⟦<Spot as Serialize>⟧.data_of v.9 human
        ∷ (⟦<(u8, String) as Serialize>⟧.data_of v.10 human
        ∷ (⟦<ByteBuf as Serialize>⟧.data_of v.11 human ∷ (⟦<BTreeMap<String, u32> as Serialize>⟧.data_of v.12 human
        ∷ (⟦<i128 as Serialize>⟧.data_of v.13 human ∷ (⟦<() as Serialize>⟧.data_of v.14 human
        ∷ (⟦<Option<Spot> as Serialize>⟧.data_of v.15 human ∷ [])))))))))))))))) (
          refl,
          (
            refl,
            (
              refl,
              (
                (option_some (λ x. ⟦<u16 as Serialize>⟧.data_of x human) (λ x1. refl) v.3),
                (
                  refl,
                  (
                    refl,
                    (
                      refl,
                      (
                        (slice_some _ (each_some (λ x. ⟦<u16 as Serialize>⟧.data_of x human) (λ x2. refl) v.7.items)),
                        (
                          (tuple_some _ (each_some (λ x. ⟦<u16 as Serialize>⟧.data_of x human) (λ x3. refl) v.8)),
                          (
                            (spot_rounds.has_data-law R.row R.ReadSlice.own (given 0) R.Source (given 0) human v.9),
                            (
                              (tuple_all (⟦<u8 as Serialize>⟧.data_of v.10.0 human ∷ (⟦<String as Serialize>⟧.data_of v.10.1 human ∷ [])) (refl, (refl, tt))),
                              (
                                refl,
                                (
                                  (mapping_some (λ x. ⟦<String as Serialize>⟧.data_of x human) (λ x. ⟦<u32 as Serialize>⟧.data_of x human) (λ x5. refl) (λ x5. refl)
                                      v.12.entries),
                                  (
                                    refl,
                                    (
                                      refl,
                                      (
                                        (option_some (λ x. ⟦<Spot as Serialize>⟧.data_of x human)
                                            (λ x6. (spot_rounds.has_data-law R.row R.ReadSlice.own (given 0) R.Source (given 0) human x6)) v.15),
                                        tt,
                                      ),
                                    ),
                                  ),
                                ),
                              ),
                            ),
                          ),
                        ),
                      ),
                    ),
                  ),
                ),
              ),
            ),
          ),
        ) };

    ghost round = { λ lent s v fits. sequence_row s _ _
        (rows_cons s _ _ (λ j. ⟦<u64 as Deserialize<'de, R>>⟧.reads s.human R.lends j v.0) _ (unsigned_row_64 s v.0 fits.0)
        (rows_cons s _ _ (λ j. ⟦<String as Deserialize<'de, R>>⟧.reads s.human R.lends j v.1) _ (string_row s (string_bytes v.1))
        (rows_cons s _ _ (λ j. ⟦<i32 as Deserialize<'de, R>>⟧.reads s.human R.lends j v.2) _ (signed_row_32 s v.2 fits.2)
        (rows_cons s _ _ (λ j. ⟦<Option<u16> as Deserialize<'de, R>>⟧.reads s.human R.lends j v.3) _
        (option_row s (λ x. ⟦<u16 as Serialize>⟧.data_of x s.human) ⟦<u16 as Serialize>⟧.is_value (⟦<u16 as Deserialize<'de, R>>⟧.reads s.human R.lends)
        (λ x9. pos_other s x9) (λ x8 h8. (unsigned_row_16 s x8 h8)) v.3 fits.3)
        (rows_cons s _ _ (λ j. ⟦<bool as Deserialize<'de, R>>⟧.reads s.human R.lends j v.4) _ (truth_row s v.4)
        (rows_cons s _ _ (λ j. ⟦<char as Deserialize<'de, R>>⟧.reads s.human R.lends j v.5) _ (char_row s v.5 fits.5)
        (rows_cons s _ _ (λ j. ⟦<F64Bits as Deserialize<'de, R>>⟧.reads s.human R.lends j v.6) _ (float64_row s v.6.0)
        (rows_cons s _ _ (λ j. ⟦<Vec<u16> as Deserialize<'de, R>>⟧.reads s.human R.lends j v.7) _
        (slice_row s _ (λ ms. ReadsEach (⟦<u16 as Deserialize<'de, R>>⟧.reads s.human R.lends) ms v.7.items)
        (each_row s (λ x. ⟦<u16 as Serialize>⟧.data_of x s.human) ⟦<u16 as Serialize>⟧.is_value (⟦<u16 as Deserialize<'de, R>>⟧.reads s.human R.lends)
        (λ x10 h10. (unsigned_row_16 s x10 h10)) v.7.items fits.7))
        (rows_cons s _ _ (λ j. ⟦<[u16; 3] as Deserialize<'de, R>>⟧.reads s.human R.lends j v.8) _
        (tuple_row s _ (Exactly 3 (⟦<u16 as Deserialize<'de, R>>⟧.reads s.human R.lends) v.8)
        (rows_map s _ _ _ (λ ms each. (fits.8.0, each)) (each_row s (λ x. ⟦<u16 as Serialize>⟧.data_of x s.human) ⟦<u16 as Serialize>⟧.is_value
        (⟦<u16 as Deserialize<'de, R>>⟧.reads s.human R.lends) (λ x11 h11. (unsigned_row_16 s x11 h11)) v.8 fits.8.1)))
        (rows_cons s _ _ (λ j. ⟦<Spot as Deserialize<'de, R>>⟧.reads s.human R.lends j v.9) _
        (spot_rounds.round-law R.row R.ReadSlice.own (given 0) R.Source (given 0) (λ e. cc) s v.9 fits.9)
        (rows_cons s _ _ (λ j. ⟦<(u8, String) as Deserialize<'de, R>>⟧.reads s.human R.lends j v.10) _
        (tuple_row s _ _ (rows_cons s _ _ (λ j. ⟦<u8 as Deserialize<'de, R>>⟧.reads s.human R.lends j v.10.0) _ (byte_row s v.10.0 fits.10.0)
        (rows_cons s _ _ (λ j. ⟦<String as Deserialize<'de, R>>⟧.reads s.human R.lends j v.10.1) _ (string_row s (string_bytes v.10.1)) (rows_none s))))
        (rows_cons s _ _ (λ j. ⟦<ByteBuf as Deserialize<'de, R>>⟧.reads s.human R.lends j v.11) _ (buffer_row s (buffer_bytes v.11))
        (rows_cons s _ _ (λ j. ⟦<BTreeMap<String, u32> as Deserialize<'de, R>>⟧.reads s.human R.lends j v.12) _
        (map_row s (λ x. ⟦<String as Serialize>⟧.data_of x s.human) (λ x. ⟦<u32 as Serialize>⟧.data_of x s.human) ⟦<String as Serialize>⟧.is_value
        ⟦<u32 as Serialize>⟧.is_value (⟦<String as Deserialize<'de, R>>⟧.reads s.human R.lends) (⟦<u32 as Deserialize<'de, R>>⟧.reads s.human R.lends)
        (λ x12 h12. (string_row s (string_bytes x12))) (λ x13 h13. (unsigned_row_32 s x13 h13)) (on_total (λ x. string_bytes x) nat_list_cmp_total)
        v.12.entries fits.12.1 fits.12.0) (rows_cons s _ _ (λ j. ⟦<i128 as Deserialize<'de, R>>⟧.reads s.human R.lends j v.13) _
        (signed128_row s v.13 fits.13) (rows_cons s _ _ (λ j. ⟦<() as Deserialize<'de, R>>⟧.reads s.human R.lends j v.14) _ (unit_row s)
        (rows_cons s _ _ (λ j. ⟦<Option<Spot> as Deserialize<'de, R>>⟧.reads s.human R.lends j v.15) _
        (option_row s (λ x. ⟦<Spot as Serialize>⟧.data_of x s.human) ⟦<Spot as Serialize>⟧.is_value (⟦<Spot as Deserialize<'de, R>>⟧.reads s.human R.lends)
        (λ x15. spot_other.never_nil-law s x15) (λ x14 h14. (spot_rounds.round-law R.row R.ReadSlice.own (given 0) R.Source (given 0) (λ e. cc) s x14 h14))
        v.15 fits.15) (rows_none s))))))))))))))))) };

    ghost same = { λ v w. ⟦<u64 as RoundTrip<'de, R>>⟧.same v.0 w.0 × ⟦<String as RoundTrip<'de, R>>⟧.same v.1 w.1
        × ⟦<i32 as RoundTrip<'de, R>>⟧.same v.2 w.2 × ⟦<Option<u16> as RoundTrip<'de, R>>⟧.same v.3 w.3 × ⟦<bool as RoundTrip<'de, R>>⟧.same v.4 w.4
        × ⟦<char as RoundTrip<'de, R>>⟧.same v.5 w.5 × ⟦<F64Bits as RoundTrip<'de, R>>⟧.same v.6 w.6 × ⟦<Vec<u16> as RoundTrip<'de, R>>⟧.same v.7 w.7
        × ⟦<[u16; 3] as RoundTrip<'de, R>>⟧.same v.8 w.8 × ⟦<Spot as RoundTrip<'de, R>>⟧.same v.9 w.9 × ⟦<(u8, String) as RoundTrip<'de, R>>⟧.same v.10 w.10
        × ⟦<ByteBuf as RoundTrip<'de, R>>⟧.same v.11 w.11 × ⟦<BTreeMap<String, u32> as RoundTrip<'de, R>>⟧.same v.12 w.12
        × ⟦<i128 as RoundTrip<'de, R>>⟧.same v.13 w.13 × ⟦<() as RoundTrip<'de, R>>⟧.same v.14 w.14
        × ⟦<Option<Spot> as RoundTrip<'de, R>>⟧.same v.15 w.15 };

    ghost alike = { λ human v w h i. sequence_of ((⟦<u64 as Serialize>⟧.data_of (h.0 i) human)
        ∷ ((text_alike (string_bytes v.1) (string_bytes w.1) h.1 i)
        ∷ ((⟦<i32 as Serialize>⟧.data_of (h.2 i) human) ∷ ((option_alike ⟦<u16 as RoundTrip<'de, R>>⟧.same (λ x. ⟦<u16 as Serialize>⟧.data_of x human)
        (λ x9 yx9 h9 i. (⟦<u16 as Serialize>⟧.data_of (h9 i) human)) v.3 w.3 h.3 i)
        ∷ ((⟦<bool as Serialize>⟧.data_of (h.4 i) human) ∷
        ((⟦<char as Serialize>⟧.data_of (h.5 i) human) ∷ ((float64_alike v.6.0 w.6.0 h.6 i)
        ∷ ((slice_alike ⟦<u16 as RoundTrip<'de, R>>⟧.same (λ x. ⟦<u16 as Serialize>⟧.data_of x human)
        (λ x10 yx10 h10 i. (⟦<u16 as Serialize>⟧.data_of (h10 i) human)) v.7.items w.7.items h.7 i)
        ∷ ((array_alike ⟦<u16 as RoundTrip<'de, R>>⟧.same (λ x. ⟦<u16 as Serialize>⟧.data_of x human)
        (λ x11 yx11 h11 i. (⟦<u16 as Serialize>⟧.data_of (h11 i) human)) v.8 w.8 h.8 i)
        ∷ ((spot_rounds.alike-law R.row R.ReadSlice.own (given 0) R.Source (given 0) human v.9 w.9 h.9 i)
        ∷ ((tuple_of ((⟦<u8 as Serialize>⟧.data_of (h.10.0 i) human) ∷ ((text_alike (string_bytes v.10.1) (string_bytes w.10.1) h.10.1 i) ∷ [])))
        ∷ ((bytes_alike (buffer_bytes v.11) (buffer_bytes w.11) h.11 i)
        ∷ ((mapping_alike ⟦<String as RoundTrip<'de, R>>⟧.same (λ x. ⟦<String as Serialize>⟧.data_of x human)
        (λ x12 yx12 h12 i. (text_alike (string_bytes x12) (string_bytes yx12) h12 i)) ⟦<u32 as RoundTrip<'de, R>>⟧.same
        (λ x. ⟦<u32 as Serialize>⟧.data_of x human) (λ x13 yx13 h13 i. (⟦<u32 as Serialize>⟧.data_of (h13 i) human)) v.12.entries w.12.entries h.12 i)
        ∷ ((⟦<i128 as Serialize>⟧.data_of (h.13 i) human) ∷
        ((unit_alike i) ∷ ((option_alike ⟦<Spot as RoundTrip<'de, R>>⟧.same (λ x. ⟦<Spot as Serialize>⟧.data_of x human)
        (λ x14 yx14 h14 i. (spot_rounds.alike-law R.row R.ReadSlice.own (given 0) R.Source (given 0) human x14 yx14 h14 i)) v.15 w.15 h.15 i)
        ∷ [])))))))))))))))) };

    ghost only = { λ s v fits. lowers_then s _ _ (λ m. (w : _) → (⟦<Row as Deserialize<'de, R>>⟧.reads s.human R.lends) m w
        → ⟦<u64 as RoundTrip<'de, R>>⟧.same v.0 w.0 × ⟦<String as RoundTrip<'de, R>>⟧.same v.1 w.1 × ⟦<i32 as RoundTrip<'de, R>>⟧.same v.2 w.2
        × ⟦<Option<u16> as RoundTrip<'de, R>>⟧.same v.3 w.3 × ⟦<bool as RoundTrip<'de, R>>⟧.same v.4 w.4 × ⟦<char as RoundTrip<'de, R>>⟧.same v.5 w.5
        × ⟦<F64Bits as RoundTrip<'de, R>>⟧.same v.6 w.6 × ⟦<Vec<u16> as RoundTrip<'de, R>>⟧.same v.7 w.7 × ⟦<[u16; 3] as RoundTrip<'de, R>>⟧.same v.8 w.8
        × ⟦<Spot as RoundTrip<'de, R>>⟧.same v.9 w.9 × ⟦<(u8, String) as RoundTrip<'de, R>>⟧.same v.10 w.10
        × ⟦<ByteBuf as RoundTrip<'de, R>>⟧.same v.11 w.11 × ⟦<BTreeMap<String, u32> as RoundTrip<'de, R>>⟧.same v.12 w.12
        × ⟦<i128 as RoundTrip<'de, R>>⟧.same v.13 w.13 × ⟦<() as RoundTrip<'de, R>>⟧.same v.14 w.14 × ⟦<Option<Spot> as RoundTrip<'de, R>>⟧.same v.15 w.15)
        (sequence_row s _ _ (rows_cons s _ _ (λ j. Only (⟦<u64 as Deserialize<'de, R>>⟧.reads s.human R.lends) ⟦<u64 as RoundTrip<'de, R>>⟧.same j v.0) _
        (unsigned_only s 18446744073709551615 v.0) (rows_cons s _ _
        (λ j. Only (⟦<String as Deserialize<'de, R>>⟧.reads s.human R.lends) ⟦<String as RoundTrip<'de, R>>⟧.same j v.1) _
        (string_only s (λ w. string_bytes w) (string_bytes v.1))
        (rows_cons s _ _ (λ j. Only (⟦<i32 as Deserialize<'de, R>>⟧.reads s.human R.lends) ⟦<i32 as RoundTrip<'de, R>>⟧.same j v.2) _
        (signed_only s (negsuc 2147483647) (pos 2147483647) v.2)
        (rows_cons s _ _ (λ j. Only (⟦<Option<u16> as Deserialize<'de, R>>⟧.reads s.human R.lends) ⟦<Option<u16> as RoundTrip<'de, R>>⟧.same j v.3) _
        (option_only s _ (⟦<u16 as Deserialize<'de, R>>⟧.reads s.human R.lends) ⟦<u16 as RoundTrip<'de, R>>⟧.same v.3
        (option_row s (λ x. ⟦<u16 as Serialize>⟧.data_of x s.human) ⟦<u16 as Serialize>⟧.is_value
        (Only (⟦<u16 as Deserialize<'de, R>>⟧.reads s.human R.lends) ⟦<u16 as RoundTrip<'de, R>>⟧.same) (λ x2. pos_other s x2)
        (λ x1 h1. (unsigned_only s 65535 x1)) v.3 fits.3))
        (rows_cons s _ _ (λ j. Only (⟦<bool as Deserialize<'de, R>>⟧.reads s.human R.lends) ⟦<bool as RoundTrip<'de, R>>⟧.same j v.4) _ (truth_only s v.4)
        (rows_cons s _ _ (λ j. Only (⟦<char as Deserialize<'de, R>>⟧.reads s.human R.lends) ⟦<char as RoundTrip<'de, R>>⟧.same j v.5) _
        (char_only s v.5 fits.5) (rows_cons s _ _ (λ j. Only (⟦<F64Bits as Deserialize<'de, R>>⟧.reads s.human R.lends)
        ⟦<F64Bits as RoundTrip<'de, R>>⟧.same j v.6) _ (float64_only s (λ w. w.0) v.6.0)
        (rows_cons s _ _ (λ j. Only (⟦<Vec<u16> as Deserialize<'de, R>>⟧.reads s.human R.lends) ⟦<Vec<u16> as RoundTrip<'de, R>>⟧.same j v.7) _
        (list_only s _ (λ w. w.items) (⟦<u16 as Deserialize<'de, R>>⟧.reads s.human R.lends) ⟦<u16 as RoundTrip<'de, R>>⟧.same v.7.items
        (slice_row s _ (λ ms. ReadsEach (Only (⟦<u16 as Deserialize<'de, R>>⟧.reads s.human R.lends) ⟦<u16 as RoundTrip<'de, R>>⟧.same) ms v.7.items)
        (each_row s (λ x. ⟦<u16 as Serialize>⟧.data_of x s.human) ⟦<u16 as Serialize>⟧.is_value
        (Only (⟦<u16 as Deserialize<'de, R>>⟧.reads s.human R.lends) ⟦<u16 as RoundTrip<'de, R>>⟧.same) (λ x3 h3. (unsigned_only s 65535 x3)) v.7.items
        fits.7))) (rows_cons s _ _ (λ j. Only (⟦<[u16; 3] as Deserialize<'de, R>>⟧.reads s.human R.lends) ⟦<[u16; 3] as RoundTrip<'de, R>>⟧.same j v.8) _
        (array_only s _ 3 (⟦<u16 as Deserialize<'de, R>>⟧.reads s.human R.lends) ⟦<u16 as RoundTrip<'de, R>>⟧.same v.8
        (tuple_row s _ (λ ms. ReadsEach (Only (⟦<u16 as Deserialize<'de, R>>⟧.reads s.human R.lends) ⟦<u16 as RoundTrip<'de, R>>⟧.same) ms v.8)
        (each_row s (λ x. ⟦<u16 as Serialize>⟧.data_of x s.human) ⟦<u16 as Serialize>⟧.is_value
        (Only (⟦<u16 as Deserialize<'de, R>>⟧.reads s.human R.lends) ⟦<u16 as RoundTrip<'de, R>>⟧.same) (λ x4 h4. (unsigned_only s 65535 x4)) v.8
        fits.8.1))) (rows_cons s _ _ (λ j. Only (⟦<Spot as Deserialize<'de, R>>⟧.reads s.human R.lends) ⟦<Spot as RoundTrip<'de, R>>⟧.same j v.9) _
        (spot_rounds.only-law R.row R.ReadSlice.own (given 0) R.Source (given 0) s v.9 fits.9)
        (rows_cons s _ _ (λ j. Only (⟦<(u8, String) as Deserialize<'de, R>>⟧.reads s.human R.lends) ⟦<(u8, String) as RoundTrip<'de, R>>⟧.same j v.10) _
        (lowers_then s _ _ (λ j. Only (⟦<(u8, String) as Deserialize<'de, R>>⟧.reads s.human R.lends) ⟦<(u8, String) as RoundTrip<'de, R>>⟧.same j v.10)
        (tuple_row s _ _ (rows_cons s _ _ (λ j. Only (⟦<u8 as Deserialize<'de, R>>⟧.reads s.human R.lends) ⟦<u8 as RoundTrip<'de, R>>⟧.same j v.10.0) _
        (byte_only s v.10.0) (rows_cons s _ _ (λ j. Only (⟦<String as Deserialize<'de, R>>⟧.reads s.human R.lends) ⟦<String as RoundTrip<'de, R>>⟧.same j
        v.10.1) _ (string_only s (λ w. string_bytes w) (string_bytes v.10.1)) (rows_none s))))
        (λ m q w r. row_both _ _ _ m q r (item_only (⟦<u8 as Deserialize<'de, R>>⟧.reads s.human R.lends) ⟦<u8 as RoundTrip<'de, R>>⟧.same v.10.0 w.0 _ _ _
        (last_only (⟦<String as Deserialize<'de, R>>⟧.reads s.human R.lends) ⟦<String as RoundTrip<'de, R>>⟧.same v.10.1 w.1))))
        (rows_cons s _ _ (λ j. Only (⟦<ByteBuf as Deserialize<'de, R>>⟧.reads s.human R.lends) ⟦<ByteBuf as RoundTrip<'de, R>>⟧.same j v.11) _
        (buffer_only s (λ w. buffer_bytes w) (buffer_bytes v.11))
        (rows_cons s _ _ (λ j. Only (⟦<BTreeMap<String, u32> as Deserialize<'de, R>>⟧.reads s.human R.lends)
        ⟦<BTreeMap<String, u32> as RoundTrip<'de, R>>⟧.same j v.12) _
        (entries_only (⟦<String as Deserialize<'de, R>>⟧.reads s.human R.lends) (⟦<u32 as Deserialize<'de, R>>⟧.reads s.human R.lends)
        ⟦<String as RoundTrip<'de, R>>⟧.same ⟦<u32 as RoundTrip<'de, R>>⟧.same s _ (λ w. w.entries) {cmp = ⟦<String as Ord>⟧.cmp}
        (on_total (λ x. string_bytes x) nat_list_cmp_total) (λ x y e. tied (slice_cmp nat_cmp) nat_list_cmp_total (string_bytes x) (string_bytes y) e)
        v.12.entries fits.12.1 (pairs_row s (λ x. ⟦<String as Serialize>⟧.data_of x s.human) (λ x. ⟦<u32 as Serialize>⟧.data_of x s.human)
        ⟦<String as Serialize>⟧.is_value ⟦<u32 as Serialize>⟧.is_value
        (Only (⟦<String as Deserialize<'de, R>>⟧.reads s.human R.lends) ⟦<String as RoundTrip<'de, R>>⟧.same)
        (Only (⟦<u32 as Deserialize<'de, R>>⟧.reads s.human R.lends) ⟦<u32 as RoundTrip<'de, R>>⟧.same)
        (λ x5 h5. (string_only s (λ w. string_bytes w) (string_bytes x5))) (λ x6 h6. (unsigned_only s 4294967295 x6)) v.12.entries fits.12.0))
        (rows_cons s _ _ (λ j. Only (⟦<i128 as Deserialize<'de, R>>⟧.reads s.human R.lends) ⟦<i128 as RoundTrip<'de, R>>⟧.same j v.13) _
        (signed128_only s v.13 fits.13) (rows_cons s _ _ (λ j. Only (⟦<() as Deserialize<'de, R>>⟧.reads s.human R.lends) ⟦<() as RoundTrip<'de, R>>⟧.same j
        v.14) _ (unit_only s) (rows_cons s _ _ (λ j. Only (⟦<Option<Spot> as Deserialize<'de, R>>⟧.reads s.human R.lends)
        ⟦<Option<Spot> as RoundTrip<'de, R>>⟧.same j v.15) _
        (option_only s _ (⟦<Spot as Deserialize<'de, R>>⟧.reads s.human R.lends) ⟦<Spot as RoundTrip<'de, R>>⟧.same v.15
        (option_row s (λ x. ⟦<Spot as Serialize>⟧.data_of x s.human) ⟦<Spot as Serialize>⟧.is_value
        (Only (⟦<Spot as Deserialize<'de, R>>⟧.reads s.human R.lends) ⟦<Spot as RoundTrip<'de, R>>⟧.same) (λ x8. spot_other.never_nil-law s x8)
        (λ x7 h7. (spot_rounds.only-law R.row R.ReadSlice.own (given 0) R.Source (given 0) s x7 h7)) v.15 fits.15)) (rows_none s))))))))))))))))))
        (λ m q w r. row_both _ _ _ m q r (λ ks i j. let x = item_only (⟦<u64 as Deserialize<'de, R>>⟧.reads s.human R.lends)
        ⟦<u64 as RoundTrip<'de, R>>⟧.same v.0 w.0 _ _ _ (item_only (⟦<String as Deserialize<'de, R>>⟧.reads s.human R.lends)
        ⟦<String as RoundTrip<'de, R>>⟧.same v.1 w.1 _ _ _
        (item_only (⟦<i32 as Deserialize<'de, R>>⟧.reads s.human R.lends) ⟦<i32 as RoundTrip<'de, R>>⟧.same v.2 w.2 _ _ _
        (item_only (⟦<Option<u16> as Deserialize<'de, R>>⟧.reads s.human R.lends) ⟦<Option<u16> as RoundTrip<'de, R>>⟧.same v.3 w.3 _ _ _
        (item_only (⟦<bool as Deserialize<'de, R>>⟧.reads s.human R.lends) ⟦<bool as RoundTrip<'de, R>>⟧.same v.4 w.4 _ _ _
        (item_only (⟦<char as Deserialize<'de, R>>⟧.reads s.human R.lends) ⟦<char as RoundTrip<'de, R>>⟧.same v.5 w.5 _ _ _
        (item_only (⟦<F64Bits as Deserialize<'de, R>>⟧.reads s.human R.lends) ⟦<F64Bits as RoundTrip<'de, R>>⟧.same v.6 w.6 _ _ _
        (item_only (⟦<Vec<u16> as Deserialize<'de, R>>⟧.reads s.human R.lends) ⟦<Vec<u16> as RoundTrip<'de, R>>⟧.same v.7 w.7 _ _ _
        (item_only (⟦<[u16; 3] as Deserialize<'de, R>>⟧.reads s.human R.lends) ⟦<[u16; 3] as RoundTrip<'de, R>>⟧.same v.8 w.8 _ _ _
        (item_only (⟦<Spot as Deserialize<'de, R>>⟧.reads s.human R.lends) ⟦<Spot as RoundTrip<'de, R>>⟧.same v.9 w.9 _ _ _
        (item_only (⟦<(u8, String) as Deserialize<'de, R>>⟧.reads s.human R.lends) ⟦<(u8, String) as RoundTrip<'de, R>>⟧.same v.10 w.10 _ _ _
        (item_only (⟦<ByteBuf as Deserialize<'de, R>>⟧.reads s.human R.lends) ⟦<ByteBuf as RoundTrip<'de, R>>⟧.same v.11 w.11 _ _ _
        (item_only (⟦<BTreeMap<String, u32> as Deserialize<'de, R>>⟧.reads s.human R.lends) ⟦<BTreeMap<String, u32> as RoundTrip<'de, R>>⟧.same v.12 w.12 _
        _ _ (item_only (⟦<i128 as Deserialize<'de, R>>⟧.reads s.human R.lends) ⟦<i128 as RoundTrip<'de, R>>⟧.same v.13 w.13 _ _ _
        (item_only (⟦<() as Deserialize<'de, R>>⟧.reads s.human R.lends) ⟦<() as RoundTrip<'de, R>>⟧.same v.14 w.14 _ _ _
        (last_only (⟦<Option<Spot> as Deserialize<'de, R>>⟧.reads s.human R.lends) ⟦<Option<Spot> as RoundTrip<'de, R>>⟧.same v.15 w.15))))))))))))))) ks i
        j in (
          x.0,
          x.1.0,
          x.1.1.0,
          x.1.1.1.0,
          x.1.1.1.1.0,
          x.1.1.1.1.1.0,
          x.1.1.1.1.1.1.0,
          x.1.1.1.1.1.1.1.0,
          x.1.1.1.1.1.1.1.1.0,
          x.1.1.1.1.1.1.1.1.1.0,
          x.1.1.1.1.1.1.1.1.1.1.0,
          x.1.1.1.1.1.1.1.1.1.1.1.0,
          x.1.1.1.1.1.1.1.1.1.1.1.1.0,
          x.1.1.1.1.1.1.1.1.1.1.1.1.1.0,
          x.1.1.1.1.1.1.1.1.1.1.1.1.1.1.0,
          x.1.1.1.1.1.1.1.1.1.1.1.1.1.1.1,
        ))) };
}

impl NeverNil for Row {
    ghost never_nil = { λ s v. sequence_other s _ };
}

impl<'de, R: ReadSlice<'de>> EndsInside<'de, R> for Row {
    ghost use Rattle.test_mixed.specs.contracts.mixed.derived.SpotEndsInside.TheImpl.Laws as spot_ends;
    ghost use mir.Syntax.{given};

    ghost ends_inside = { tuple_inside (part_of ⟦<u64 as Deserialize<'de, R>>⟧.reads ⟦<u64 as Deserialize<'de, R>>⟧.refuses
        ∷ (part_of ⟦<String as Deserialize<'de, R>>⟧.reads ⟦<String as Deserialize<'de, R>>⟧.refuses
        ∷ (part_of ⟦<i32 as Deserialize<'de, R>>⟧.reads ⟦<i32 as Deserialize<'de, R>>⟧.refuses
        ∷ (part_of ⟦<Option<u16> as Deserialize<'de, R>>⟧.reads ⟦<Option<u16> as Deserialize<'de, R>>⟧.refuses
        ∷ (part_of ⟦<bool as Deserialize<'de, R>>⟧.reads ⟦<bool as Deserialize<'de, R>>⟧.refuses
        ∷ (part_of ⟦<char as Deserialize<'de, R>>⟧.reads ⟦<char as Deserialize<'de, R>>⟧.refuses
        ∷ (part_of ⟦<F64Bits as Deserialize<'de, R>>⟧.reads ⟦<F64Bits as Deserialize<'de, R>>⟧.refuses
        ∷ (part_of ⟦<Vec<u16> as Deserialize<'de, R>>⟧.reads ⟦<Vec<u16> as Deserialize<'de, R>>⟧.refuses
        ∷ (part_of ⟦<[u16; 3] as Deserialize<'de, R>>⟧.reads ⟦<[u16; 3] as Deserialize<'de, R>>⟧.refuses
        ∷ (part_of ⟦<Spot as Deserialize<'de, R>>⟧.reads ⟦<Spot as Deserialize<'de, R>>⟧.refuses
        ∷ (part_of ⟦<(u8, String) as Deserialize<'de, R>>⟧.reads ⟦<(u8, String) as Deserialize<'de, R>>⟧.refuses
        ∷ (part_of ⟦<ByteBuf as Deserialize<'de, R>>⟧.reads ⟦<ByteBuf as Deserialize<'de, R>>⟧.refuses
        ∷ (part_of ⟦<BTreeMap<String, u32> as Deserialize<'de, R>>⟧.reads ⟦<BTreeMap<String, u32> as Deserialize<'de, R>>⟧.refuses
        ∷ (part_of ⟦<i128 as Deserialize<'de, R>>⟧.reads ⟦<i128 as Deserialize<'de, R>>⟧.refuses
        ∷ (part_of ⟦<() as Deserialize<'de, R>>⟧.reads ⟦<() as Deserialize<'de, R>>⟧.refuses
        ∷ (part_of ⟦<Option<Spot> as Deserialize<'de, R>>⟧.reads ⟦<Option<Spot> as Deserialize<'de, R>>⟧.refuses ∷ [])))))))))))))))) (
          number_inside,
          (
            string_inside,
            (
              number_inside,
              (
                (option_inside ⟦<u16 as Deserialize<'de, R>>⟧.refuses number_inside),
                (
                  kind_inside,
                  (
                    char_inside,
                    (
                      kind_inside,
                      (
                        (each_inside ⟦<u16 as Deserialize<'de, R>>⟧.reads ⟦<u16 as Deserialize<'de, R>>⟧.refuses number_inside),
                        (
                          (array_inside _ 3 ⟦<u16 as Deserialize<'de, R>>⟧.reads ⟦<u16 as Deserialize<'de, R>>⟧.refuses number_inside),
                          (
                            (spot_ends.ends_inside-law R.row R.ReadSlice.own (given 0) R.Source (given 0)),
                            (
                              (tuple_inside (part_of ⟦<u8 as Deserialize<'de, R>>⟧.reads ⟦<u8 as Deserialize<'de, R>>⟧.refuses
                                  ∷ (part_of ⟦<String as Deserialize<'de, R>>⟧.reads ⟦<String as Deserialize<'de, R>>⟧.refuses ∷ [])) (number_inside, (string_inside, tt))),
                              (
                                buffer_inside,
                                (
                                  (map_inside ⟦<String as Deserialize<'de, R>>⟧.reads ⟦<u32 as Deserialize<'de, R>>⟧.reads ⟦<String as Deserialize<'de, R>>⟧.refuses
                                      ⟦<u32 as Deserialize<'de, R>>⟧.refuses string_inside number_inside),
                                  (
                                    signed128_inside,
                                    (
                                      nil_inside,
                                      (
                                        (option_inside ⟦<Spot as Deserialize<'de, R>>⟧.refuses
                                            (spot_ends.ends_inside-law R.row R.ReadSlice.own (given 0) R.Source (given 0))),
                                        tt,
                                      ),
                                    ),
                                  ),
                                ),
                              ),
                            ),
                          ),
                        ),
                      ),
                    ),
                  ),
                ),
              ),
            ),
          ),
        ) };
}

impl Serialize for Line {
    ghost data_of = { λ v human. elim v [
      | the_line.Empty ↦ Some (unit_variant (codes "Empty"))
      | the_line.Short a1 a2 a3 a4 a5 a6 a7 a8 a9 ↦
          tuple_variant_of (codes "Short") (⟦<u8 as Serialize>⟧.data_of a1 human
          ∷ (⟦<String as Serialize>⟧.data_of a2 human ∷ (⟦<i16 as Serialize>⟧.data_of a3 human
          ∷ (⟦<Option<u16> as Serialize>⟧.data_of a4 human ∷
          (⟦<bool as Serialize>⟧.data_of a5 human ∷ (⟦<Vec<u16> as Serialize>⟧.data_of a6 human
          ∷ (⟦<char as Serialize>⟧.data_of a7 human ∷ (⟦<Spot as Serialize>⟧.data_of a8 human ∷ (⟦<u32 as Serialize>⟧.data_of a9 human ∷ [])))))))))
      | the_line.Long a1 a2 a3 a4 a5 a6 a7 a8 a9 a10 a11 a12 a13 a14 a15 a16 ↦ tuple_variant_of (codes "Long")
          (⟦<u64 as Serialize>⟧.data_of a1 human ∷ (⟦<String as Serialize>⟧.data_of a2 human
          ∷ (⟦<i32 as Serialize>⟧.data_of a3 human ∷ (⟦<Option<u16> as Serialize>⟧.data_of a4 human
          ∷ (⟦<bool as Serialize>⟧.data_of a5 human ∷ (⟦<char as Serialize>⟧.data_of a6 human
          ∷ (⟦<F64Bits as Serialize>⟧.data_of a7 human ∷ (⟦<Vec<u16> as Serialize>⟧.data_of a8 human
          ∷ (⟦<[u16; 3] as Serialize>⟧.data_of a9 human ∷ (⟦<Spot as Serialize>⟧.data_of a10 human
          ∷ (⟦<(u8, String) as Serialize>⟧.data_of a11 human
          ∷ (⟦<ByteBuf as Serialize>⟧.data_of a12 human ∷ (⟦<BTreeMap<String, u32> as Serialize>⟧.data_of a13 human
          ∷ (⟦<i128 as Serialize>⟧.data_of a14 human ∷ (⟦<() as Serialize>⟧.data_of a15 human
          ∷ (⟦<Option<Spot> as Serialize>⟧.data_of a16 human ∷ []))))))))))))))))
    ] };

    ghost is_value = { λ v. elim v [
      | the_line.Empty ↦ ⊤
      | the_line.Short a1 a2 a3 a4 a5 a6 a7 a8 a9 ↦ ⟦<u8 as Serialize>⟧.is_value a1
          × ⟦<String as Serialize>⟧.is_value a2 × ⟦<i16 as Serialize>⟧.is_value a3 × ⟦<Option<u16> as Serialize>⟧.is_value a4
          × ⟦<bool as Serialize>⟧.is_value a5 × ⟦<Vec<u16> as Serialize>⟧.is_value a6 × ⟦<char as Serialize>⟧.is_value a7 × ⟦<Spot as Serialize>⟧.is_value a8
          × ⟦<u32 as Serialize>⟧.is_value a9
      | the_line.Long a1 a2 a3 a4 a5 a6 a7 a8 a9 a10 a11 a12 a13 a14 a15 a16 ↦ ⟦<u64 as Serialize>⟧.is_value a1
          × ⟦<String as Serialize>⟧.is_value a2 × ⟦<i32 as Serialize>⟧.is_value a3 × ⟦<Option<u16> as Serialize>⟧.is_value a4
          × ⟦<bool as Serialize>⟧.is_value a5 × ⟦<char as Serialize>⟧.is_value a6 × ⟦<F64Bits as Serialize>⟧.is_value a7
          × ⟦<Vec<u16> as Serialize>⟧.is_value a8 × ⟦<[u16; 3] as Serialize>⟧.is_value a9 × ⟦<Spot as Serialize>⟧.is_value a10
          × ⟦<(u8, String) as Serialize>⟧.is_value a11 × ⟦<ByteBuf as Serialize>⟧.is_value a12 × ⟦<BTreeMap<String, u32> as Serialize>⟧.is_value a13
          × ⟦<i128 as Serialize>⟧.is_value a14 × ⟦<() as Serialize>⟧.is_value a15 × ⟦<Option<Spot> as Serialize>⟧.is_value a16
    ] };

    ghost takes_memory = { λ s. one_of (false ∷ (one_of
        (⟦<u8 as Serialize>⟧.takes_memory s ∷ (⟦<String as Serialize>⟧.takes_memory s
        ∷ (⟦<i16 as Serialize>⟧.takes_memory s ∷ (⟦<Option<u16> as Serialize>⟧.takes_memory s
        ∷ (⟦<bool as Serialize>⟧.takes_memory s ∷ (⟦<Vec<u16> as Serialize>⟧.takes_memory s
        ∷ (⟦<char as Serialize>⟧.takes_memory s ∷ (⟦<Spot as Serialize>⟧.takes_memory s ∷ (⟦<u32 as Serialize>⟧.takes_memory s ∷ [])))))))))
        ∷ (one_of (⟦<u64 as Serialize>⟧.takes_memory s ∷ (⟦<String as Serialize>⟧.takes_memory s
        ∷ (⟦<i32 as Serialize>⟧.takes_memory s ∷ (⟦<Option<u16> as Serialize>⟧.takes_memory s
        ∷ (⟦<bool as Serialize>⟧.takes_memory s ∷ (⟦<char as Serialize>⟧.takes_memory s
        ∷ (⟦<F64Bits as Serialize>⟧.takes_memory s ∷ (⟦<Vec<u16> as Serialize>⟧.takes_memory s
        ∷ (⟦<[u16; 3] as Serialize>⟧.takes_memory s ∷ (⟦<Spot as Serialize>⟧.takes_memory s
        ∷ (⟦<(u8, String) as Serialize>⟧.takes_memory s ∷ (⟦<ByteBuf as Serialize>⟧.takes_memory s
        ∷ (⟦<BTreeMap<String, u32> as Serialize>⟧.takes_memory s
        ∷ (⟦<i128 as Serialize>⟧.takes_memory s ∷ (⟦<() as Serialize>⟧.takes_memory s ∷ (⟦<Option<Spot> as Serialize>⟧.takes_memory s ∷ []))))))))))))))))
        ∷ []))) };

    ghost refuses = { λ v. elim v [
      | the_line.Empty ↦ OfSink
      | the_line.Short a1 a2 a3 a4 a5 a6 a7 a8 a9 ↦ OfParts ⊥
          (⟦<u8 as Serialize>⟧.refuses a1 ∷ (⟦<String as Serialize>⟧.refuses a2
          ∷ (⟦<i16 as Serialize>⟧.refuses a3 ∷ (⟦<Option<u16> as Serialize>⟧.refuses a4
          ∷ (⟦<bool as Serialize>⟧.refuses a5 ∷ (⟦<Vec<u16> as Serialize>⟧.refuses a6
          ∷ (⟦<char as Serialize>⟧.refuses a7 ∷ (⟦<Spot as Serialize>⟧.refuses a8 ∷ (⟦<u32 as Serialize>⟧.refuses a9 ∷ [])))))))))
      | the_line.Long a1 a2 a3 a4
          a5 a6 a7 a8 a9 a10 a11 a12 a13 a14 a15 a16 ↦ OfParts ⊥
          (⟦<u64 as Serialize>⟧.refuses a1 ∷ (⟦<String as Serialize>⟧.refuses a2
          ∷ (⟦<i32 as Serialize>⟧.refuses a3 ∷ (⟦<Option<u16> as Serialize>⟧.refuses a4
          ∷ (⟦<bool as Serialize>⟧.refuses a5 ∷ (⟦<char as Serialize>⟧.refuses a6
          ∷ (⟦<F64Bits as Serialize>⟧.refuses a7 ∷ (⟦<Vec<u16> as Serialize>⟧.refuses a8
          ∷ (⟦<[u16; 3] as Serialize>⟧.refuses a9 ∷ (⟦<Spot as Serialize>⟧.refuses a10
          ∷ (⟦<(u8, String) as Serialize>⟧.refuses a11 ∷ (⟦<ByteBuf as Serialize>⟧.refuses a12
          ∷ (⟦<BTreeMap<String, u32> as Serialize>⟧.refuses a13
          ∷ (⟦<i128 as Serialize>⟧.refuses a14 ∷ (⟦<() as Serialize>⟧.refuses a15 ∷ (⟦<Option<Spot> as Serialize>⟧.refuses a16 ∷ []))))))))))))))))
    ] };

    #[tactic(auto, unfolding(rmp_encode::specs::Data::lower))]
    fn serialize<W: Sink, C: SerializerConfig>(
        &self,
        se: &mut Serializer<W, C>,
    ) -> Result<(), rmp_encode::Error> {
        match self {
            Line::Empty => se.serialize_unit_variant("Line", 0, "Empty"),
            Line::Short(first, second, third, fourth, fifth, sixth, seventh, eighth, ninth) => {
                let parts = NineParts {
                    first,
                    second,
                    third,
                    fourth,
                    fifth,
                    sixth,
                    seventh,
                    eighth,
                    ninth,
                };
                se.serialize_tuple_variant_of("Line", 1, "Short", &parts)
            }
            Line::Long(
                first,
                second,
                third,
                fourth,
                fifth,
                sixth,
                seventh,
                eighth,
                ninth,
                tenth,
                eleventh,
                twelfth,
                thirteenth,
                fourteenth,
                fifteenth,
                sixteenth,
            ) => {
                let parts = SixteenParts {
                    first,
                    second,
                    third,
                    fourth,
                    fifth,
                    sixth,
                    seventh,
                    eighth,
                    ninth,
                    tenth,
                    eleventh,
                    twelfth,
                    thirteenth,
                    fourteenth,
                    fifteenth,
                    sixteenth,
                };
                se.serialize_tuple_variant_of("Line", 2, "Long", &parts)
            }
        }
    }

    fn as_u8(&self, _human: bool) -> Option<u8> {
        match self {
            Line::Empty => None,
            Line::Short(_, _, _, _, _, _, _, _, _) => None,
            Line::Long(_, _, _, _, _, _, _, _, _, _, _, _, _, _, _, _) => None,
        }
    }
}

impl<'de, R: ReadSlice<'de>> Deserialize<'de, R> for Line {
    ghost reads = { λ human lends m v. OfVariant (codes "Empty" ∷ (codes "Short" ∷ (codes "Long" ∷ [])))
        (Case (λ c. (v ≡ the_line.Empty) × Bare c) (Case (λ c. (a1 : _) × (a2 : _) × (a3 : _) × (a4 : _) × (a5 : _) × (a6 : _) × (a7 : _) × (a8 : _)
        × (a9 : _) × (v ≡ the_line.Short a1 a2 a3 a4 a5 a6 a7 a8 a9)
        × Content (λ k. OfRow (AndThen (λ j. ⟦<u8 as Deserialize<'de, R>>⟧.reads human lends j a1)
        (AndThen (λ j. ⟦<String as Deserialize<'de, R>>⟧.reads human lends j a2)
        (AndThen (λ j. ⟦<i16 as Deserialize<'de, R>>⟧.reads human lends j a3)
        (AndThen (λ j. ⟦<Option<u16> as Deserialize<'de, R>>⟧.reads human lends j a4)
        (AndThen (λ j. ⟦<bool as Deserialize<'de, R>>⟧.reads human lends j a5)
        (AndThen (λ j. ⟦<Vec<u16> as Deserialize<'de, R>>⟧.reads human lends j a6)
        (AndThen (λ j. ⟦<char as Deserialize<'de, R>>⟧.reads human lends j a7)
        (AndThen (λ j. ⟦<Spot as Deserialize<'de, R>>⟧.reads human lends j a8)
        (AndThen (λ j. ⟦<u32 as Deserialize<'de, R>>⟧.reads human lends j a9) NoMore))))))))) k) c)
        (Case (λ c. (a1 : _) × (a2 : _) × (a3 : _) × (a4 : _) × (a5 : _) × (a6 : _) × (a7 : _) × (a8 : _) × (a9 : _) × (a10 : _) × (a11 : _) × (a12 : _)
        × (a13 : _) × (a14 : _) × (a15 : _) × (a16 : _) × (v ≡ the_line.Long a1 a2 a3 a4 a5 a6 a7 a8 a9 a10 a11 a12 a13 a14 a15 a16)
        × Content (λ k. OfRow (AndThen (λ j. ⟦<u64 as Deserialize<'de, R>>⟧.reads human lends j a1)
        (AndThen (λ j. ⟦<String as Deserialize<'de, R>>⟧.reads human lends j a2)
        (AndThen (λ j. ⟦<i32 as Deserialize<'de, R>>⟧.reads human lends j a3)
        (AndThen (λ j. ⟦<Option<u16> as Deserialize<'de, R>>⟧.reads human lends j a4)
        (AndThen (λ j. ⟦<bool as Deserialize<'de, R>>⟧.reads human lends j a5)
        (AndThen (λ j. ⟦<char as Deserialize<'de, R>>⟧.reads human lends j a6)
        (AndThen (λ j. ⟦<F64Bits as Deserialize<'de, R>>⟧.reads human lends j a7)
        (AndThen (λ j. ⟦<Vec<u16> as Deserialize<'de, R>>⟧.reads human lends j a8)
        (AndThen (λ j. ⟦<[u16; 3] as Deserialize<'de, R>>⟧.reads human lends j a9)
        (AndThen (λ j. ⟦<Spot as Deserialize<'de, R>>⟧.reads human lends j a10)
        (AndThen (λ j. ⟦<(u8, String) as Deserialize<'de, R>>⟧.reads human lends j a11)
        (AndThen (λ j. ⟦<ByteBuf as Deserialize<'de, R>>⟧.reads human lends j a12)
        (AndThen (λ j. ⟦<BTreeMap<String, u32> as Deserialize<'de, R>>⟧.reads human lends j a13)
        (AndThen (λ j. ⟦<i128 as Deserialize<'de, R>>⟧.reads human lends j a14)
        (AndThen (λ j. ⟦<() as Deserialize<'de, R>>⟧.reads human lends j a15)
        (AndThen (λ j. ⟦<Option<Spot> as Deserialize<'de, R>>⟧.reads human lends j a16) NoMore)))))))))))))))) k) c) NoCase))) m };

    ghost absent = { None };

    ghost refuses = { RefusesEnum (codes "Empty" ∷ (codes "Short" ∷ (codes "Long" ∷ [])))
        (no_content ∷ (with_content (RefusesTuple (part_of ⟦<u8 as Deserialize<'de, R>>⟧.reads ⟦<u8 as Deserialize<'de, R>>⟧.refuses
        ∷ (part_of ⟦<String as Deserialize<'de, R>>⟧.reads ⟦<String as Deserialize<'de, R>>⟧.refuses
        ∷ (part_of ⟦<i16 as Deserialize<'de, R>>⟧.reads ⟦<i16 as Deserialize<'de, R>>⟧.refuses
        ∷ (part_of ⟦<Option<u16> as Deserialize<'de, R>>⟧.reads ⟦<Option<u16> as Deserialize<'de, R>>⟧.refuses
        ∷ (part_of ⟦<bool as Deserialize<'de, R>>⟧.reads ⟦<bool as Deserialize<'de, R>>⟧.refuses
        ∷ (part_of ⟦<Vec<u16> as Deserialize<'de, R>>⟧.reads ⟦<Vec<u16> as Deserialize<'de, R>>⟧.refuses
        ∷ (part_of ⟦<char as Deserialize<'de, R>>⟧.reads ⟦<char as Deserialize<'de, R>>⟧.refuses
        ∷ (part_of ⟦<Spot as Deserialize<'de, R>>⟧.reads ⟦<Spot as Deserialize<'de, R>>⟧.refuses
        ∷ (part_of ⟦<u32 as Deserialize<'de, R>>⟧.reads ⟦<u32 as Deserialize<'de, R>>⟧.refuses ∷ []))))))))))
        ∷ (with_content (RefusesTuple (part_of ⟦<u64 as Deserialize<'de, R>>⟧.reads ⟦<u64 as Deserialize<'de, R>>⟧.refuses
        ∷ (part_of ⟦<String as Deserialize<'de, R>>⟧.reads ⟦<String as Deserialize<'de, R>>⟧.refuses
        ∷ (part_of ⟦<i32 as Deserialize<'de, R>>⟧.reads ⟦<i32 as Deserialize<'de, R>>⟧.refuses
        ∷ (part_of ⟦<Option<u16> as Deserialize<'de, R>>⟧.reads ⟦<Option<u16> as Deserialize<'de, R>>⟧.refuses
        ∷ (part_of ⟦<bool as Deserialize<'de, R>>⟧.reads ⟦<bool as Deserialize<'de, R>>⟧.refuses
        ∷ (part_of ⟦<char as Deserialize<'de, R>>⟧.reads ⟦<char as Deserialize<'de, R>>⟧.refuses
        ∷ (part_of ⟦<F64Bits as Deserialize<'de, R>>⟧.reads ⟦<F64Bits as Deserialize<'de, R>>⟧.refuses
        ∷ (part_of ⟦<Vec<u16> as Deserialize<'de, R>>⟧.reads ⟦<Vec<u16> as Deserialize<'de, R>>⟧.refuses
        ∷ (part_of ⟦<[u16; 3] as Deserialize<'de, R>>⟧.reads ⟦<[u16; 3] as Deserialize<'de, R>>⟧.refuses
        ∷ (part_of ⟦<Spot as Deserialize<'de, R>>⟧.reads ⟦<Spot as Deserialize<'de, R>>⟧.refuses
        ∷ (part_of ⟦<(u8, String) as Deserialize<'de, R>>⟧.reads ⟦<(u8, String) as Deserialize<'de, R>>⟧.refuses
        ∷ (part_of ⟦<ByteBuf as Deserialize<'de, R>>⟧.reads ⟦<ByteBuf as Deserialize<'de, R>>⟧.refuses
        ∷ (part_of ⟦<BTreeMap<String, u32> as Deserialize<'de, R>>⟧.reads ⟦<BTreeMap<String, u32> as Deserialize<'de, R>>⟧.refuses
        ∷ (part_of ⟦<i128 as Deserialize<'de, R>>⟧.reads ⟦<i128 as Deserialize<'de, R>>⟧.refuses
        ∷ (part_of ⟦<() as Deserialize<'de, R>>⟧.reads ⟦<() as Deserialize<'de, R>>⟧.refuses
        ∷ (part_of ⟦<Option<Spot> as Deserialize<'de, R>>⟧.reads ⟦<Option<Spot> as Deserialize<'de, R>>⟧.refuses ∷ []))))))))))))))))) ∷ []))) };

    fn deserialize<C: SerializerConfig>(
        de: &mut Deserializer<R, C>,
    ) -> Result<Line, rmp_decode::Error> {
        match de.deserialize_enum(&["Empty", "Short", "Long"]) {
            Ok((0, variant)) => match variant.unit_variant() {
                Ok(()) => return Ok(Line::Empty),
                Err(e) => return Err(e),
            },
            Ok((1, variant)) => match variant.newtype_variant() {
                Ok(parts) => {
                    let (first, second, third, fourth, fifth, sixth, seventh, eighth, ninth) =
                        parts;
                    return Ok(Line::Short(
                        first, second, third, fourth, fifth, sixth, seventh, eighth, ninth,
                    ));
                }
                Err(e) => return Err(e),
            },
            Ok((_, variant)) => match variant.newtype_variant() {
                Ok(parts) => {
                    let LineLongElements {
                        first,
                        second,
                        third,
                        fourth,
                        fifth,
                        sixth,
                        seventh,
                        eighth,
                        ninth,
                        tenth,
                        eleventh,
                        twelfth,
                        thirteenth,
                        fourteenth,
                        fifteenth,
                        sixteenth,
                    } = parts;
                    return Ok(Line::Long(
                        first, second, third, fourth, fifth, sixth, seventh, eighth, ninth, tenth,
                        eleventh, twelfth, thirteenth, fourteenth, fifteenth, sixteenth,
                    ));
                }
                Err(e) => return Err(e),
            },
            Err(e) => return Err(e),
        }
    }

    fn missing() -> Option<Line> {
        None
    }
}

// What the elements of a variant are read as.
#[derive(Drop)]
struct LineLongElements {
    first: u64,
    second: String,
    third: i32,
    fourth: Option<u16>,
    fifth: bool,
    sixth: char,
    seventh: F64Bits,
    eighth: Vec<u16>,
    ninth: [u16; 3],
    tenth: Spot,
    eleventh: (u8, String),
    twelfth: ByteBuf,
    thirteenth: BTreeMap<String, u32>,
    fourteenth: i128,
    fifteenth: (),
    sixteenth: Option<Spot>,
}

impl<'de, R: ReadSlice<'de>> Deserialize<'de, R> for LineLongElements {
    ghost reads = { λ human lends m v. OfRow (AndThen (λ j. ⟦<u64 as Deserialize<'de, R>>⟧.reads human lends j v.first)
        (AndThen (λ j. ⟦<String as Deserialize<'de, R>>⟧.reads human lends j v.second)
        (AndThen (λ j. ⟦<i32 as Deserialize<'de, R>>⟧.reads human lends j v.third)
        (AndThen (λ j. ⟦<Option<u16> as Deserialize<'de, R>>⟧.reads human lends j v.fourth)
        (AndThen (λ j. ⟦<bool as Deserialize<'de, R>>⟧.reads human lends j v.fifth)
        (AndThen (λ j. ⟦<char as Deserialize<'de, R>>⟧.reads human lends j v.sixth)
        (AndThen (λ j. ⟦<F64Bits as Deserialize<'de, R>>⟧.reads human lends j v.seventh)
        (AndThen (λ j. ⟦<Vec<u16> as Deserialize<'de, R>>⟧.reads human lends j v.eighth)
        (AndThen (λ j. ⟦<[u16; 3] as Deserialize<'de, R>>⟧.reads human lends j v.ninth)
        (AndThen (λ j. ⟦<Spot as Deserialize<'de, R>>⟧.reads human lends j v.tenth)
        (AndThen (λ j. ⟦<(u8, String) as Deserialize<'de, R>>⟧.reads human lends j v.eleventh)
        (AndThen (λ j. ⟦<ByteBuf as Deserialize<'de, R>>⟧.reads human lends j v.twelfth)
        (AndThen (λ j. ⟦<BTreeMap<String, u32> as Deserialize<'de, R>>⟧.reads human lends j v.thirteenth)
        (AndThen (λ j. ⟦<i128 as Deserialize<'de, R>>⟧.reads human lends j v.fourteenth)
        (AndThen (λ j. ⟦<() as Deserialize<'de, R>>⟧.reads human lends j v.fifteenth)
        (AndThen (λ j. ⟦<Option<Spot> as Deserialize<'de, R>>⟧.reads human lends j v.sixteenth) NoMore)))))))))))))))) m };

    ghost absent = { None };

    ghost refuses = { RefusesTuple (part_of ⟦<u64 as Deserialize<'de, R>>⟧.reads ⟦<u64 as Deserialize<'de, R>>⟧.refuses
        ∷ (part_of ⟦<String as Deserialize<'de, R>>⟧.reads ⟦<String as Deserialize<'de, R>>⟧.refuses
        ∷ (part_of ⟦<i32 as Deserialize<'de, R>>⟧.reads ⟦<i32 as Deserialize<'de, R>>⟧.refuses
        ∷ (part_of ⟦<Option<u16> as Deserialize<'de, R>>⟧.reads ⟦<Option<u16> as Deserialize<'de, R>>⟧.refuses
        ∷ (part_of ⟦<bool as Deserialize<'de, R>>⟧.reads ⟦<bool as Deserialize<'de, R>>⟧.refuses
        ∷ (part_of ⟦<char as Deserialize<'de, R>>⟧.reads ⟦<char as Deserialize<'de, R>>⟧.refuses
        ∷ (part_of ⟦<F64Bits as Deserialize<'de, R>>⟧.reads ⟦<F64Bits as Deserialize<'de, R>>⟧.refuses
        ∷ (part_of ⟦<Vec<u16> as Deserialize<'de, R>>⟧.reads ⟦<Vec<u16> as Deserialize<'de, R>>⟧.refuses
        ∷ (part_of ⟦<[u16; 3] as Deserialize<'de, R>>⟧.reads ⟦<[u16; 3] as Deserialize<'de, R>>⟧.refuses
        ∷ (part_of ⟦<Spot as Deserialize<'de, R>>⟧.reads ⟦<Spot as Deserialize<'de, R>>⟧.refuses
        ∷ (part_of ⟦<(u8, String) as Deserialize<'de, R>>⟧.reads ⟦<(u8, String) as Deserialize<'de, R>>⟧.refuses
        ∷ (part_of ⟦<ByteBuf as Deserialize<'de, R>>⟧.reads ⟦<ByteBuf as Deserialize<'de, R>>⟧.refuses
        ∷ (part_of ⟦<BTreeMap<String, u32> as Deserialize<'de, R>>⟧.reads ⟦<BTreeMap<String, u32> as Deserialize<'de, R>>⟧.refuses
        ∷ (part_of ⟦<i128 as Deserialize<'de, R>>⟧.reads ⟦<i128 as Deserialize<'de, R>>⟧.refuses
        ∷ (part_of ⟦<() as Deserialize<'de, R>>⟧.reads ⟦<() as Deserialize<'de, R>>⟧.refuses
        ∷ (part_of ⟦<Option<Spot> as Deserialize<'de, R>>⟧.reads ⟦<Option<Spot> as Deserialize<'de, R>>⟧.refuses ∷ [])))))))))))))))) };

    fn deserialize<C: SerializerConfig>(
        de: &mut Deserializer<R, C>,
    ) -> Result<LineLongElements, rmp_decode::Error> {
        let read: Result<
            (
                u64,
                String,
                i32,
                Option<u16>,
                (
                    bool,
                    char,
                    F64Bits,
                    Vec<u16>,
                    (
                        [u16; 3],
                        Spot,
                        (u8, String),
                        ByteBuf,
                        (BTreeMap<String, u32>, i128, (), Option<Spot>, ()),
                    ),
                ),
            ),
            rmp_decode::Error,
        > = de.tuple_parts(16);
        match read {
            Ok(parts) => {
                let (first, second, third, fourth, others) = parts;
                let (fifth, sixth, seventh, eighth, others) = others;
                let (ninth, tenth, eleventh, twelfth, others) = others;
                let (thirteenth, fourteenth, fifteenth, sixteenth, ()) = others;
                return Ok(LineLongElements {
                    first,
                    second,
                    third,
                    fourth,
                    fifth,
                    sixth,
                    seventh,
                    eighth,
                    ninth,
                    tenth,
                    eleventh,
                    twelfth,
                    thirteenth,
                    fourteenth,
                    fifteenth,
                    sixteenth,
                });
            }
            Err(e) => return Err(e),
        }
    }

    fn missing() -> Option<LineLongElements> {
        None
    }
}

impl<'de, R: ReadSlice<'de>> RoundTrip<'de, R> for Line {
    ghost use Rattle.test_mixed.specs.contracts.mixed.derived.SpotNeverNil.TheImpl.Laws as spot_other;
    ghost use Rattle.test_mixed.specs.contracts.mixed.derived.SpotRoundTrip.TheImpl.Laws as spot_rounds;
    ghost use mir.Syntax.{given};

    ghost has_data = { λ human. elim [
      | the_line.Empty ↦ refl
      | the_line.Short a1 a2 a3 a4 a5 a6 a7 a8 a9 ↦ tuple_variant_all (codes "Short")
          (⟦<u8 as Serialize>⟧.data_of a1 human ∷ (⟦<String as Serialize>⟧.data_of a2 human
          ∷ (⟦<i16 as Serialize>⟧.data_of a3 human ∷ (⟦<Option<u16> as Serialize>⟧.data_of a4 human
          ∷ (⟦<bool as Serialize>⟧.data_of a5 human ∷ (⟦<Vec<u16> as Serialize>⟧.data_of a6 human
          ∷ (⟦<char as Serialize>⟧.data_of a7 human ∷ (⟦<Spot as Serialize>⟧.data_of a8 human ∷ (⟦<u32 as Serialize>⟧.data_of a9 human ∷ []))))))))) (
            refl,
            (
              refl,
              (
                refl,
                (
                  (option_some (λ x. ⟦<u16 as Serialize>⟧.data_of x human) (λ x1. refl) a4),
                  (
                    refl,
                    (
                      (slice_some _ (each_some (λ x. ⟦<u16 as Serialize>⟧.data_of x human) (λ x2. refl) a6.items)),
                      (refl, ((spot_rounds.has_data-law R.row R.ReadSlice.own (given 0) R.Source (given 0) human a8), (refl, tt))),
                    ),
                  ),
                ),
              ),
            ),
          )
      | the_line.Long a1 a2 a3 a4 a5 a6
          a7 a8 a9 a10 a11 a12 a13 a14 a15 a16 ↦ tuple_variant_all (codes "Long")
          (⟦<u64 as Serialize>⟧.data_of a1 human ∷ (⟦<String as Serialize>⟧.data_of a2 human
          ∷ (⟦<i32 as Serialize>⟧.data_of a3 human ∷ (⟦<Option<u16> as Serialize>⟧.data_of a4 human
          ∷ (⟦<bool as Serialize>⟧.data_of a5 human ∷ (⟦<char as Serialize>⟧.data_of a6 human
          ∷ (⟦<F64Bits as Serialize>⟧.data_of a7 human ∷ (⟦<Vec<u16> as Serialize>⟧.data_of a8 human
          ∷ (⟦<[u16; 3] as Serialize>⟧.data_of a9 human ∷ (⟦<Spot as Serialize>⟧.data_of a10 human
          ∷ (⟦<(u8, String) as Serialize>⟧.data_of a11 human
          ∷ (⟦<ByteBuf as Serialize>⟧.data_of a12 human ∷ (⟦<BTreeMap<String, u32> as Serialize>⟧.data_of a13 human
          ∷ (⟦<i128 as Serialize>⟧.data_of a14 human ∷ (⟦<() as Serialize>⟧.data_of a15 human
          ∷ (⟦<Option<Spot> as Serialize>⟧.data_of a16 human ∷ [])))))))))))))))) (
            refl,
            (
              refl,
              (
                refl,
                (
                  (option_some (λ x. ⟦<u16 as Serialize>⟧.data_of x human) (λ x4. refl) a4),
                  (
                    refl,
                    (
                      refl,
                      (
                        refl,
                        (
                          (slice_some _ (each_some (λ x. ⟦<u16 as Serialize>⟧.data_of x human) (λ x5. refl) a8.items)),
                          (
                            (tuple_some _ (each_some (λ x. ⟦<u16 as Serialize>⟧.data_of x human) (λ x6. refl) a9)),
                            (
                              (spot_rounds.has_data-law R.row R.ReadSlice.own (given 0) R.Source (given 0) human a10),
                              (
                                (tuple_all (⟦<u8 as Serialize>⟧.data_of a11.0 human ∷ (⟦<String as Serialize>⟧.data_of a11.1 human ∷ [])) (refl, (refl, tt))),
                                (
                                  refl,
                                  (
                                    (mapping_some (λ x. ⟦<String as Serialize>⟧.data_of x human) (λ x. ⟦<u32 as Serialize>⟧.data_of x human) (λ x8. refl) (λ x8. refl)
                                        a13.entries),
                                    (
                                      refl,
                                      (
                                        refl,
                                        (
                                          (option_some (λ x. ⟦<Spot as Serialize>⟧.data_of x human)
                                              (λ x9. (spot_rounds.has_data-law R.row R.ReadSlice.own (given 0) R.Source (given 0) human x9)) a16),
                                          tt,
                                        ),
                                      ),
                                    ),
                                  ),
                                ),
                              ),
                            ),
                          ),
                        ),
                      ),
                    ),
                  ),
                ),
              ),
            ),
          )
    ] };

    ghost round = { λ lent s. let names = codes "Empty" ∷ (codes "Short" ∷ (codes "Long" ∷ []))
        in elim [
          | the_line.Empty ↦ λ fits. bare_row s names (codes "Empty") 0 refl _ (refl, tt)
          | the_line.Short a1 a2 a3 a4 a5 a6 a7 a8 a9 ↦ λ fits.
              tuple_variant_row s names (codes "Short") 1 refl _ _ _ (λ m h. (a1, a2, a3, a4, a5, a6, a7, a8, a9, refl, h))
              (rows_cons s _ _ (λ j. ⟦<u8 as Deserialize<'de, R>>⟧.reads s.human R.lends j a1) _ (byte_row s a1 fits.0)
              (rows_cons s _ _ (λ j. ⟦<String as Deserialize<'de, R>>⟧.reads s.human R.lends j a2) _ (string_row s (string_bytes a2))
              (rows_cons s _ _ (λ j. ⟦<i16 as Deserialize<'de, R>>⟧.reads s.human R.lends j a3) _ (signed_row_16 s a3 fits.2)
              (rows_cons s _ _ (λ j. ⟦<Option<u16> as Deserialize<'de, R>>⟧.reads s.human R.lends j a4) _
              (option_row s (λ x. ⟦<u16 as Serialize>⟧.data_of x s.human) ⟦<u16 as Serialize>⟧.is_value (⟦<u16 as Deserialize<'de, R>>⟧.reads s.human R.lends)
              (λ x12. pos_other s x12) (λ x11 h11. (unsigned_row_16 s x11 h11)) a4 fits.3)
              (rows_cons s _ _ (λ j. ⟦<bool as Deserialize<'de, R>>⟧.reads s.human R.lends j a5) _ (truth_row s a5)
              (rows_cons s _ _ (λ j. ⟦<Vec<u16> as Deserialize<'de, R>>⟧.reads s.human R.lends j a6) _
              (slice_row s _ (λ ms. ReadsEach (⟦<u16 as Deserialize<'de, R>>⟧.reads s.human R.lends) ms a6.items)
              (each_row s (λ x. ⟦<u16 as Serialize>⟧.data_of x s.human) ⟦<u16 as Serialize>⟧.is_value (⟦<u16 as Deserialize<'de, R>>⟧.reads s.human R.lends)
              (λ x13 h13. (unsigned_row_16 s x13 h13)) a6.items fits.5))
              (rows_cons s _ _ (λ j. ⟦<char as Deserialize<'de, R>>⟧.reads s.human R.lends j a7) _ (char_row s a7 fits.6)
              (rows_cons s _ _ (λ j. ⟦<Spot as Deserialize<'de, R>>⟧.reads s.human R.lends j a8) _
              (spot_rounds.round-law R.row R.ReadSlice.own (given 0) R.Source (given 0) (λ e. cc) s a8 fits.7)
              (rows_cons s _ _ (λ j. ⟦<u32 as Deserialize<'de, R>>⟧.reads s.human R.lends j a9) _ (unsigned_row_32 s a9 fits.8) (rows_none s))))))))))
          | the_line.Long a1 a2 a3 a4 a5 a6 a7 a8 a9 a10 a11 a12 a13 a14 a15 a16 ↦ λ fits. tuple_variant_row s names (codes "Long") 2 refl _ _ _
              (λ m h. (a1, a2, a3, a4, a5, a6, a7, a8, a9, a10, a11, a12, a13, a14, a15, a16, refl, h))
              (rows_cons s _ _ (λ j. ⟦<u64 as Deserialize<'de, R>>⟧.reads s.human R.lends j a1) _ (unsigned_row_64 s a1 fits.0)
              (rows_cons s _ _ (λ j. ⟦<String as Deserialize<'de, R>>⟧.reads s.human R.lends j a2) _ (string_row s (string_bytes a2))
              (rows_cons s _ _ (λ j. ⟦<i32 as Deserialize<'de, R>>⟧.reads s.human R.lends j a3) _ (signed_row_32 s a3 fits.2)
              (rows_cons s _ _ (λ j. ⟦<Option<u16> as Deserialize<'de, R>>⟧.reads s.human R.lends j a4) _
              (option_row s (λ x. ⟦<u16 as Serialize>⟧.data_of x s.human) ⟦<u16 as Serialize>⟧.is_value (⟦<u16 as Deserialize<'de, R>>⟧.reads s.human R.lends)
              (λ x15. pos_other s x15) (λ x14 h14. (unsigned_row_16 s x14 h14)) a4 fits.3)
              (rows_cons s _ _ (λ j. ⟦<bool as Deserialize<'de, R>>⟧.reads s.human R.lends j a5) _ (truth_row s a5)
              (rows_cons s _ _ (λ j. ⟦<char as Deserialize<'de, R>>⟧.reads s.human R.lends j a6) _ (char_row s a6 fits.5)
              (rows_cons s _ _ (λ j. ⟦<F64Bits as Deserialize<'de, R>>⟧.reads s.human R.lends j a7) _ (float64_row s a7.0)
              (rows_cons s _ _ (λ j. ⟦<Vec<u16> as Deserialize<'de, R>>⟧.reads s.human R.lends j a8) _
              (slice_row s _ (λ ms. ReadsEach (⟦<u16 as Deserialize<'de, R>>⟧.reads s.human R.lends) ms a8.items)
              (each_row s (λ x. ⟦<u16 as Serialize>⟧.data_of x s.human) ⟦<u16 as Serialize>⟧.is_value (⟦<u16 as Deserialize<'de, R>>⟧.reads s.human R.lends)
              (λ x16 h16. (unsigned_row_16 s x16 h16)) a8.items fits.7))
              (rows_cons s _ _ (λ j. ⟦<[u16; 3] as Deserialize<'de, R>>⟧.reads s.human R.lends j a9) _
              (tuple_row s _ (Exactly 3 (⟦<u16 as Deserialize<'de, R>>⟧.reads s.human R.lends) a9)
              (rows_map s _ _ _ (λ ms each. (fits.8.0, each)) (each_row s (λ x. ⟦<u16 as Serialize>⟧.data_of x s.human) ⟦<u16 as Serialize>⟧.is_value
              (⟦<u16 as Deserialize<'de, R>>⟧.reads s.human R.lends) (λ x17 h17. (unsigned_row_16 s x17 h17)) a9 fits.8.1)))
              (rows_cons s _ _ (λ j. ⟦<Spot as Deserialize<'de, R>>⟧.reads s.human R.lends j a10) _
              (spot_rounds.round-law R.row R.ReadSlice.own (given 0) R.Source (given 0) (λ e. cc) s a10 fits.9)
              (rows_cons s _ _ (λ j. ⟦<(u8, String) as Deserialize<'de, R>>⟧.reads s.human R.lends j a11) _
              (tuple_row s _ _ (rows_cons s _ _ (λ j. ⟦<u8 as Deserialize<'de, R>>⟧.reads s.human R.lends j a11.0) _ (byte_row s a11.0 fits.10.0)
              (rows_cons s _ _ (λ j. ⟦<String as Deserialize<'de, R>>⟧.reads s.human R.lends j a11.1) _ (string_row s (string_bytes a11.1)) (rows_none s))))
              (rows_cons s _ _ (λ j. ⟦<ByteBuf as Deserialize<'de, R>>⟧.reads s.human R.lends j a12) _ (buffer_row s (buffer_bytes a12))
              (rows_cons s _ _ (λ j. ⟦<BTreeMap<String, u32> as Deserialize<'de, R>>⟧.reads s.human R.lends j a13) _
              (map_row s (λ x. ⟦<String as Serialize>⟧.data_of x s.human) (λ x. ⟦<u32 as Serialize>⟧.data_of x s.human) ⟦<String as Serialize>⟧.is_value
              ⟦<u32 as Serialize>⟧.is_value (⟦<String as Deserialize<'de, R>>⟧.reads s.human R.lends) (⟦<u32 as Deserialize<'de, R>>⟧.reads s.human R.lends)
              (λ x18 h18. (string_row s (string_bytes x18))) (λ x19 h19. (unsigned_row_32 s x19 h19)) (on_total (λ x. string_bytes x) nat_list_cmp_total)
              a13.entries fits.12.1 fits.12.0) (rows_cons s _ _ (λ j. ⟦<i128 as Deserialize<'de, R>>⟧.reads s.human R.lends j a14) _ (signed128_row s a14 fits.13)
              (rows_cons s _ _ (λ j. ⟦<() as Deserialize<'de, R>>⟧.reads s.human R.lends j a15) _ (unit_row s)
              (rows_cons s _ _ (λ j. ⟦<Option<Spot> as Deserialize<'de, R>>⟧.reads s.human R.lends j a16) _
              (option_row s (λ x. ⟦<Spot as Serialize>⟧.data_of x s.human) ⟦<Spot as Serialize>⟧.is_value (⟦<Spot as Deserialize<'de, R>>⟧.reads s.human R.lends)
              (λ x21. spot_other.never_nil-law s x21) (λ x20 h20. (spot_rounds.round-law R.row R.ReadSlice.own (given 0) R.Source (given 0) (λ e. cc) s x20 h20))
              a16 fits.15) (rows_none s)))))))))))))))))
        ] };

    ghost same = { λ v w. elim v [
      | the_line.Empty ↦ (w ≡ the_line.Empty)
      | the_line.Short a1 a2 a3 a4 a5 a6 a7 a8 a9 ↦ (b1 : _) × (b2 : _) × (b3 : _)
          × (b4 : _) × (b5 : _) × (b6 : _) × (b7 : _) × (b8 : _) × (b9 : _) × (w ≡ the_line.Short b1 b2 b3 b4 b5 b6 b7 b8 b9)
          × ⟦<u8 as RoundTrip<'de, R>>⟧.same a1 b1 × ⟦<String as RoundTrip<'de, R>>⟧.same a2 b2 × ⟦<i16 as RoundTrip<'de, R>>⟧.same a3 b3
          × ⟦<Option<u16> as RoundTrip<'de, R>>⟧.same a4 b4 × ⟦<bool as RoundTrip<'de, R>>⟧.same a5 b5 × ⟦<Vec<u16> as RoundTrip<'de, R>>⟧.same a6 b6
          × ⟦<char as RoundTrip<'de, R>>⟧.same a7 b7 × ⟦<Spot as RoundTrip<'de, R>>⟧.same a8 b8
          × ⟦<u32 as RoundTrip<'de, R>>⟧.same a9 b9
      | the_line.Long a1 a2 a3 a4 a5 a6 a7 a8 a9 a10 a11 a12 a13 a14 a15 a16 ↦ (b1 : _) × (b2 : _) × (b3 : _)
          × (b4 : _) × (b5 : _) × (b6 : _) × (b7 : _) × (b8 : _) × (b9 : _) × (b10 : _) × (b11 : _) × (b12 : _) × (b13 : _) × (b14 : _) × (b15 : _)
          × (b16 : _) × (w ≡ the_line.Long b1 b2 b3 b4 b5 b6 b7 b8 b9 b10 b11 b12 b13 b14 b15 b16) × ⟦<u64 as RoundTrip<'de, R>>⟧.same a1 b1
          × ⟦<String as RoundTrip<'de, R>>⟧.same a2 b2 × ⟦<i32 as RoundTrip<'de, R>>⟧.same a3 b3 × ⟦<Option<u16> as RoundTrip<'de, R>>⟧.same a4 b4
          × ⟦<bool as RoundTrip<'de, R>>⟧.same a5 b5 × ⟦<char as RoundTrip<'de, R>>⟧.same a6 b6 × ⟦<F64Bits as RoundTrip<'de, R>>⟧.same a7 b7
          × ⟦<Vec<u16> as RoundTrip<'de, R>>⟧.same a8 b8 × ⟦<[u16; 3] as RoundTrip<'de, R>>⟧.same a9 b9 × ⟦<Spot as RoundTrip<'de, R>>⟧.same a10 b10
          × ⟦<(u8, String) as RoundTrip<'de, R>>⟧.same a11 b11 × ⟦<ByteBuf as RoundTrip<'de, R>>⟧.same a12 b12
          × ⟦<BTreeMap<String, u32> as RoundTrip<'de, R>>⟧.same a13 b13 × ⟦<i128 as RoundTrip<'de, R>>⟧.same a14 b14
          × ⟦<() as RoundTrip<'de, R>>⟧.same a15 b15 × ⟦<Option<Spot> as RoundTrip<'de, R>>⟧.same a16 b16
    ] };

    ghost alike = { λ human. elim [
      | the_line.Empty ↦ λ w h. variant_alike (λ x. ⟦<Line as Serialize>⟧.data_of x human) w the_line.Empty h
          (λ i. Some (unit_variant (codes "Empty")))
      | the_line.Short a1 a2 a3 a4 a5 a6 a7 a8 a9 ↦ λ w h. variant_alike
          (λ x. ⟦<Line as Serialize>⟧.data_of x human) w (the_line.Short h.0 h.1 h.2 h.3 h.4 h.5 h.6 h.7 h.8) h.9
          (λ i. tuple_variant_of (codes "Short") ((⟦<u8 as Serialize>⟧.data_of (h.10 i) human)
          ∷ ((text_alike (string_bytes a2) (string_bytes h.1) h.11 i)
          ∷ ((⟦<i16 as Serialize>⟧.data_of (h.12 i) human) ∷
          ((option_alike ⟦<u16 as RoundTrip<'de, R>>⟧.same (λ x. ⟦<u16 as Serialize>⟧.data_of x human)
          (λ x12 yx12 h12 i. (⟦<u16 as Serialize>⟧.data_of (h12 i) human)) a4 h.3 h.13 i)
          ∷ ((⟦<bool as Serialize>⟧.data_of (h.14 i) human) ∷
          ((slice_alike ⟦<u16 as RoundTrip<'de, R>>⟧.same (λ x. ⟦<u16 as Serialize>⟧.data_of x human)
          (λ x13 yx13 h13 i. (⟦<u16 as Serialize>⟧.data_of (h13 i) human)) a6.items h.5.items h.15 i)
          ∷ ((⟦<char as Serialize>⟧.data_of (h.16 i) human) ∷
          ((spot_rounds.alike-law R.row R.ReadSlice.own (given 0) R.Source (given 0) human a8 h.7 h.17 i)
          ∷ ((⟦<u32 as Serialize>⟧.data_of (h.18 i) human) ∷ []))))))))))
      | the_line.Long a1 a2 a3 a4 a5 a6 a7 a8 a9 a10 a11 a12 a13 a14 a15 a16 ↦ λ w h.
          variant_alike (λ x. ⟦<Line as Serialize>⟧.data_of x human) w (the_line.Long h.0 h.1 h.2 h.3 h.4 h.5 h.6 h.7 h.8 h.9 h.10 h.11 h.12 h.13 h.14 h.15)
          h.16 (λ i. tuple_variant_of (codes "Long") ((⟦<u64 as Serialize>⟧.data_of (h.17 i) human)
          ∷ ((text_alike (string_bytes a2) (string_bytes h.1) h.18 i)
          ∷ ((⟦<i32 as Serialize>⟧.data_of (h.19 i) human) ∷
          ((option_alike ⟦<u16 as RoundTrip<'de, R>>⟧.same (λ x. ⟦<u16 as Serialize>⟧.data_of x human)
          (λ x14 yx14 h14 i. (⟦<u16 as Serialize>⟧.data_of (h14 i) human)) a4 h.3 h.20 i)
          ∷ ((⟦<bool as Serialize>⟧.data_of (h.21 i) human) ∷
          ((⟦<char as Serialize>⟧.data_of (h.22 i) human) ∷ ((float64_alike a7.0 h.6.0 h.23 i)
          ∷ ((slice_alike ⟦<u16 as RoundTrip<'de, R>>⟧.same (λ x. ⟦<u16 as Serialize>⟧.data_of x human)
          (λ x15 yx15 h15 i. (⟦<u16 as Serialize>⟧.data_of (h15 i) human)) a8.items h.7.items h.24 i)
          ∷ ((array_alike ⟦<u16 as RoundTrip<'de, R>>⟧.same (λ x. ⟦<u16 as Serialize>⟧.data_of x human)
          (λ x16 yx16 h16 i. (⟦<u16 as Serialize>⟧.data_of (h16 i) human)) a9 h.8 h.25 i)
          ∷ ((spot_rounds.alike-law R.row R.ReadSlice.own (given 0) R.Source (given 0) human a10 h.9 h.26 i)
          ∷ ((tuple_of ((⟦<u8 as Serialize>⟧.data_of (h.27.0 i) human) ∷ ((text_alike (string_bytes a11.1) (string_bytes h.10.1) h.27.1 i) ∷ [])))
          ∷ ((bytes_alike (buffer_bytes a12) (buffer_bytes h.11) h.28 i)
          ∷ ((mapping_alike ⟦<String as RoundTrip<'de, R>>⟧.same (λ x. ⟦<String as Serialize>⟧.data_of x human)
          (λ x17 yx17 h17 i. (text_alike (string_bytes x17) (string_bytes yx17) h17 i)) ⟦<u32 as RoundTrip<'de, R>>⟧.same
          (λ x. ⟦<u32 as Serialize>⟧.data_of x human) (λ x18 yx18 h18 i. (⟦<u32 as Serialize>⟧.data_of (h18 i) human)) a13.entries h.12.entries h.29 i)
          ∷ ((⟦<i128 as Serialize>⟧.data_of (h.30 i) human) ∷
          ((unit_alike i) ∷ ((option_alike ⟦<Spot as RoundTrip<'de, R>>⟧.same (λ x. ⟦<Spot as Serialize>⟧.data_of x human)
          (λ x19 yx19 h19 i. (spot_rounds.alike-law R.row R.ReadSlice.own (given 0) R.Source (given 0) human x19 yx19 h19 i)) a16 h.15 h.32 i)
          ∷ [])))))))))))))))))
    ] };

    ghost only = { λ s. let names = codes "Empty" ∷ (codes "Short" ∷ (codes "Long" ∷ []))
        in elim [
          | the_line.Empty ↦ λ fits. lowers_then s (Some (unit_variant (codes "Empty"))) (OfVariant names (AtPlace 0 AnyContent)) (λ m. (w : _)
              → (⟦<Line as Deserialize<'de, R>>⟧.reads s.human R.lends) m w
              → (w ≡ the_line.Empty)) (bare_row s names (codes "Empty") 0 refl (AtPlace 0 AnyContent) (refl, tt))
              (λ m q w r. variant_both names 0 AnyContent _ _ m q r (λ c a b. b.0))
          | the_line.Short a1 a2 a3 a4 a5 a6 a7 a8 a9 ↦ λ fits. lowers_then s _ _
              (λ m. (w : _) → (⟦<Line as Deserialize<'de, R>>⟧.reads s.human R.lends) m w
              → (b1 : _) × (b2 : _) × (b3 : _) × (b4 : _) × (b5 : _) × (b6 : _) × (b7 : _) × (b8 : _) × (b9 : _) × (w ≡ the_line.Short b1 b2 b3 b4 b5 b6 b7 b8 b9)
              × ⟦<u8 as RoundTrip<'de, R>>⟧.same a1 b1 × ⟦<String as RoundTrip<'de, R>>⟧.same a2 b2 × ⟦<i16 as RoundTrip<'de, R>>⟧.same a3 b3
              × ⟦<Option<u16> as RoundTrip<'de, R>>⟧.same a4 b4 × ⟦<bool as RoundTrip<'de, R>>⟧.same a5 b5 × ⟦<Vec<u16> as RoundTrip<'de, R>>⟧.same a6 b6
              × ⟦<char as RoundTrip<'de, R>>⟧.same a7 b7 × ⟦<Spot as RoundTrip<'de, R>>⟧.same a8 b8 × ⟦<u32 as RoundTrip<'de, R>>⟧.same a9 b9)
              (tuple_variant_row s names (codes "Short") 1 refl (AtPlace 1
              (Content (OfRow (AndThen (λ j. Only (⟦<u8 as Deserialize<'de, R>>⟧.reads s.human R.lends) ⟦<u8 as RoundTrip<'de, R>>⟧.same j a1)
              (AndThen (λ j. Only (⟦<String as Deserialize<'de, R>>⟧.reads s.human R.lends) ⟦<String as RoundTrip<'de, R>>⟧.same j a2)
              (AndThen (λ j. Only (⟦<i16 as Deserialize<'de, R>>⟧.reads s.human R.lends) ⟦<i16 as RoundTrip<'de, R>>⟧.same j a3)
              (AndThen (λ j. Only (⟦<Option<u16> as Deserialize<'de, R>>⟧.reads s.human R.lends) ⟦<Option<u16> as RoundTrip<'de, R>>⟧.same j a4)
              (AndThen (λ j. Only (⟦<bool as Deserialize<'de, R>>⟧.reads s.human R.lends) ⟦<bool as RoundTrip<'de, R>>⟧.same j a5)
              (AndThen (λ j. Only (⟦<Vec<u16> as Deserialize<'de, R>>⟧.reads s.human R.lends) ⟦<Vec<u16> as RoundTrip<'de, R>>⟧.same j a6)
              (AndThen (λ j. Only (⟦<char as Deserialize<'de, R>>⟧.reads s.human R.lends) ⟦<char as RoundTrip<'de, R>>⟧.same j a7)
              (AndThen (λ j. Only (⟦<Spot as Deserialize<'de, R>>⟧.reads s.human R.lends) ⟦<Spot as RoundTrip<'de, R>>⟧.same j a8)
              (AndThen (λ j. Only (⟦<u32 as Deserialize<'de, R>>⟧.reads s.human R.lends) ⟦<u32 as RoundTrip<'de, R>>⟧.same j a9) NoMore)))))))))))) _ _
              (λ m h. (refl, h)) (rows_cons s _ _ (λ j. Only (⟦<u8 as Deserialize<'de, R>>⟧.reads s.human R.lends) ⟦<u8 as RoundTrip<'de, R>>⟧.same j a1) _
              (byte_only s a1) (rows_cons s _ _ (λ j. Only (⟦<String as Deserialize<'de, R>>⟧.reads s.human R.lends) ⟦<String as RoundTrip<'de, R>>⟧.same j a2) _
              (string_only s (λ w. string_bytes w) (string_bytes a2))
              (rows_cons s _ _ (λ j. Only (⟦<i16 as Deserialize<'de, R>>⟧.reads s.human R.lends) ⟦<i16 as RoundTrip<'de, R>>⟧.same j a3) _
              (signed_only s (negsuc 32767) (pos 32767) a3) (rows_cons s _ _
              (λ j. Only (⟦<Option<u16> as Deserialize<'de, R>>⟧.reads s.human R.lends) ⟦<Option<u16> as RoundTrip<'de, R>>⟧.same j a4) _
              (option_only s _ (⟦<u16 as Deserialize<'de, R>>⟧.reads s.human R.lends) ⟦<u16 as RoundTrip<'de, R>>⟧.same a4
              (option_row s (λ x. ⟦<u16 as Serialize>⟧.data_of x s.human) ⟦<u16 as Serialize>⟧.is_value
              (Only (⟦<u16 as Deserialize<'de, R>>⟧.reads s.human R.lends) ⟦<u16 as RoundTrip<'de, R>>⟧.same) (λ x2. pos_other s x2)
              (λ x1 h1. (unsigned_only s 65535 x1)) a4 fits.3)) (rows_cons s _ _
              (λ j. Only (⟦<bool as Deserialize<'de, R>>⟧.reads s.human R.lends) ⟦<bool as RoundTrip<'de, R>>⟧.same j a5) _ (truth_only s a5)
              (rows_cons s _ _ (λ j. Only (⟦<Vec<u16> as Deserialize<'de, R>>⟧.reads s.human R.lends) ⟦<Vec<u16> as RoundTrip<'de, R>>⟧.same j a6) _
              (list_only s _ (λ w. w.items) (⟦<u16 as Deserialize<'de, R>>⟧.reads s.human R.lends) ⟦<u16 as RoundTrip<'de, R>>⟧.same a6.items
              (slice_row s _ (λ ms. ReadsEach (Only (⟦<u16 as Deserialize<'de, R>>⟧.reads s.human R.lends) ⟦<u16 as RoundTrip<'de, R>>⟧.same) ms a6.items)
              (each_row s (λ x. ⟦<u16 as Serialize>⟧.data_of x s.human) ⟦<u16 as Serialize>⟧.is_value
              (Only (⟦<u16 as Deserialize<'de, R>>⟧.reads s.human R.lends) ⟦<u16 as RoundTrip<'de, R>>⟧.same) (λ x3 h3. (unsigned_only s 65535 x3)) a6.items
              fits.5))) (rows_cons s _ _ (λ j. Only (⟦<char as Deserialize<'de, R>>⟧.reads s.human R.lends) ⟦<char as RoundTrip<'de, R>>⟧.same j a7) _
              (char_only s a7 fits.6) (rows_cons s _ _ (λ j. Only (⟦<Spot as Deserialize<'de, R>>⟧.reads s.human R.lends) ⟦<Spot as RoundTrip<'de, R>>⟧.same j a8)
              _ (spot_rounds.only-law R.row R.ReadSlice.own (given 0) R.Source (given 0) s a8 fits.7)
              (rows_cons s _ _ (λ j. Only (⟦<u32 as Deserialize<'de, R>>⟧.reads s.human R.lends) ⟦<u32 as RoundTrip<'de, R>>⟧.same j a9) _
              (unsigned_only s 4294967295 a9) (rows_none s)))))))))))
              (λ m q w r. variant_both names 1 _ _ _ m q r (λ c a b. content_row _ _ _ c a b.10
              (λ ks i j. let x = item_only (⟦<u8 as Deserialize<'de, R>>⟧.reads s.human R.lends) ⟦<u8 as RoundTrip<'de, R>>⟧.same a1 b.0 _ _ _
              (item_only (⟦<String as Deserialize<'de, R>>⟧.reads s.human R.lends) ⟦<String as RoundTrip<'de, R>>⟧.same a2 b.1 _ _ _
              (item_only (⟦<i16 as Deserialize<'de, R>>⟧.reads s.human R.lends) ⟦<i16 as RoundTrip<'de, R>>⟧.same a3 b.2 _ _ _
              (item_only (⟦<Option<u16> as Deserialize<'de, R>>⟧.reads s.human R.lends) ⟦<Option<u16> as RoundTrip<'de, R>>⟧.same a4 b.3 _ _ _
              (item_only (⟦<bool as Deserialize<'de, R>>⟧.reads s.human R.lends) ⟦<bool as RoundTrip<'de, R>>⟧.same a5 b.4 _ _ _
              (item_only (⟦<Vec<u16> as Deserialize<'de, R>>⟧.reads s.human R.lends) ⟦<Vec<u16> as RoundTrip<'de, R>>⟧.same a6 b.5 _ _ _
              (item_only (⟦<char as Deserialize<'de, R>>⟧.reads s.human R.lends) ⟦<char as RoundTrip<'de, R>>⟧.same a7 b.6 _ _ _
              (item_only (⟦<Spot as Deserialize<'de, R>>⟧.reads s.human R.lends) ⟦<Spot as RoundTrip<'de, R>>⟧.same a8 b.7 _ _ _
              (last_only (⟦<u32 as Deserialize<'de, R>>⟧.reads s.human R.lends) ⟦<u32 as RoundTrip<'de, R>>⟧.same a9 b.8)))))))) ks i j
              in (
                b.0,
                b.1,
                b.2,
                b.3,
                b.4,
                b.5,
                b.6,
                b.7,
                b.8,
                b.9,
                x.0,
                x.1.0,
                x.1.1.0,
                x.1.1.1.0,
                x.1.1.1.1.0,
                x.1.1.1.1.1.0,
                x.1.1.1.1.1.1.0,
                x.1.1.1.1.1.1.1.0,
                x.1.1.1.1.1.1.1.1,
              ))))
          | the_line.Long a1 a2 a3 a4 a5 a6 a7 a8 a9 a10 a11 a12 a13 a14 a15 a16 ↦ λ fits. lowers_then s _ _
              (λ m. (w : _) → (⟦<Line as Deserialize<'de, R>>⟧.reads s.human R.lends) m w
              → (b1 : _) × (b2 : _) × (b3 : _) × (b4 : _) × (b5 : _) × (b6 : _) × (b7 : _) × (b8 : _) × (b9 : _) × (b10 : _) × (b11 : _) × (b12 : _) × (b13 : _)
              × (b14 : _) × (b15 : _) × (b16 : _) × (w ≡ the_line.Long b1 b2 b3 b4 b5 b6 b7 b8 b9 b10 b11 b12 b13 b14 b15 b16)
              × ⟦<u64 as RoundTrip<'de, R>>⟧.same a1 b1 × ⟦<String as RoundTrip<'de, R>>⟧.same a2 b2 × ⟦<i32 as RoundTrip<'de, R>>⟧.same a3 b3
              × ⟦<Option<u16> as RoundTrip<'de, R>>⟧.same a4 b4 × ⟦<bool as RoundTrip<'de, R>>⟧.same a5 b5 × ⟦<char as RoundTrip<'de, R>>⟧.same a6 b6
              × ⟦<F64Bits as RoundTrip<'de, R>>⟧.same a7 b7 × ⟦<Vec<u16> as RoundTrip<'de, R>>⟧.same a8 b8 × ⟦<[u16; 3] as RoundTrip<'de, R>>⟧.same a9 b9
              × ⟦<Spot as RoundTrip<'de, R>>⟧.same a10 b10 × ⟦<(u8, String) as RoundTrip<'de, R>>⟧.same a11 b11 × ⟦<ByteBuf as RoundTrip<'de, R>>⟧.same a12 b12
              × ⟦<BTreeMap<String, u32> as RoundTrip<'de, R>>⟧.same a13 b13 × ⟦<i128 as RoundTrip<'de, R>>⟧.same a14 b14
              × ⟦<() as RoundTrip<'de, R>>⟧.same a15 b15 × ⟦<Option<Spot> as RoundTrip<'de, R>>⟧.same a16 b16)
              (tuple_variant_row s names (codes "Long") 2 refl (AtPlace 2
              (Content (OfRow (AndThen (λ j. Only (⟦<u64 as Deserialize<'de, R>>⟧.reads s.human R.lends) ⟦<u64 as RoundTrip<'de, R>>⟧.same j a1)
              (AndThen (λ j. Only (⟦<String as Deserialize<'de, R>>⟧.reads s.human R.lends) ⟦<String as RoundTrip<'de, R>>⟧.same j a2)
              (AndThen (λ j. Only (⟦<i32 as Deserialize<'de, R>>⟧.reads s.human R.lends) ⟦<i32 as RoundTrip<'de, R>>⟧.same j a3)
              (AndThen (λ j. Only (⟦<Option<u16> as Deserialize<'de, R>>⟧.reads s.human R.lends) ⟦<Option<u16> as RoundTrip<'de, R>>⟧.same j a4)
              (AndThen (λ j. Only (⟦<bool as Deserialize<'de, R>>⟧.reads s.human R.lends) ⟦<bool as RoundTrip<'de, R>>⟧.same j a5)
              (AndThen (λ j. Only (⟦<char as Deserialize<'de, R>>⟧.reads s.human R.lends) ⟦<char as RoundTrip<'de, R>>⟧.same j a6)
              (AndThen (λ j. Only (⟦<F64Bits as Deserialize<'de, R>>⟧.reads s.human R.lends) ⟦<F64Bits as RoundTrip<'de, R>>⟧.same j a7)
              (AndThen (λ j. Only (⟦<Vec<u16> as Deserialize<'de, R>>⟧.reads s.human R.lends) ⟦<Vec<u16> as RoundTrip<'de, R>>⟧.same j a8)
              (AndThen (λ j. Only (⟦<[u16; 3] as Deserialize<'de, R>>⟧.reads s.human R.lends) ⟦<[u16; 3] as RoundTrip<'de, R>>⟧.same j a9)
              (AndThen (λ j. Only (⟦<Spot as Deserialize<'de, R>>⟧.reads s.human R.lends) ⟦<Spot as RoundTrip<'de, R>>⟧.same j a10)
              (AndThen (λ j. Only (⟦<(u8, String) as Deserialize<'de, R>>⟧.reads s.human R.lends) ⟦<(u8, String) as RoundTrip<'de, R>>⟧.same j a11)
              (AndThen (λ j. Only (⟦<ByteBuf as Deserialize<'de, R>>⟧.reads s.human R.lends) ⟦<ByteBuf as RoundTrip<'de, R>>⟧.same j a12)
              (AndThen (λ j. Only (⟦<BTreeMap<String, u32> as Deserialize<'de, R>>⟧.reads s.human R.lends) ⟦<BTreeMap<String, u32> as RoundTrip<'de, R>>⟧.same j
              a13) (AndThen (λ j. Only (⟦<i128 as Deserialize<'de, R>>⟧.reads s.human R.lends) ⟦<i128 as RoundTrip<'de, R>>⟧.same j a14)
              (AndThen (λ j. Only (⟦<() as Deserialize<'de, R>>⟧.reads s.human R.lends) ⟦<() as RoundTrip<'de, R>>⟧.same j a15)
              (AndThen (λ j. Only (⟦<Option<Spot> as Deserialize<'de, R>>⟧.reads s.human R.lends) ⟦<Option<Spot> as RoundTrip<'de, R>>⟧.same j a16)
              NoMore))))))))))))))))))) _ _ (λ m h. (refl, h)) (rows_cons s _ _
              (λ j. Only (⟦<u64 as Deserialize<'de, R>>⟧.reads s.human R.lends) ⟦<u64 as RoundTrip<'de, R>>⟧.same j a1) _
              (unsigned_only s 18446744073709551615 a1) (rows_cons s _ _
              (λ j. Only (⟦<String as Deserialize<'de, R>>⟧.reads s.human R.lends) ⟦<String as RoundTrip<'de, R>>⟧.same j a2) _
              (string_only s (λ w. string_bytes w) (string_bytes a2))
              (rows_cons s _ _ (λ j. Only (⟦<i32 as Deserialize<'de, R>>⟧.reads s.human R.lends) ⟦<i32 as RoundTrip<'de, R>>⟧.same j a3) _
              (signed_only s (negsuc 2147483647) (pos 2147483647) a3)
              (rows_cons s _ _ (λ j. Only (⟦<Option<u16> as Deserialize<'de, R>>⟧.reads s.human R.lends) ⟦<Option<u16> as RoundTrip<'de, R>>⟧.same j a4) _
              (option_only s _ (⟦<u16 as Deserialize<'de, R>>⟧.reads s.human R.lends) ⟦<u16 as RoundTrip<'de, R>>⟧.same a4
              (option_row s (λ x. ⟦<u16 as Serialize>⟧.data_of x s.human) ⟦<u16 as Serialize>⟧.is_value
              (Only (⟦<u16 as Deserialize<'de, R>>⟧.reads s.human R.lends) ⟦<u16 as RoundTrip<'de, R>>⟧.same) (λ x5. pos_other s x5)
              (λ x4 h4. (unsigned_only s 65535 x4)) a4 fits.3)) (rows_cons s _ _
              (λ j. Only (⟦<bool as Deserialize<'de, R>>⟧.reads s.human R.lends) ⟦<bool as RoundTrip<'de, R>>⟧.same j a5) _ (truth_only s a5)
              (rows_cons s _ _ (λ j. Only (⟦<char as Deserialize<'de, R>>⟧.reads s.human R.lends) ⟦<char as RoundTrip<'de, R>>⟧.same j a6) _
              (char_only s a6 fits.5) (rows_cons s _ _ (λ j. Only (⟦<F64Bits as Deserialize<'de, R>>⟧.reads s.human R.lends) ⟦<F64Bits as RoundTrip<'de, R>>⟧.same
              j a7) _ (float64_only s (λ w. w.0) a7.0) (rows_cons s _ _
              (λ j. Only (⟦<Vec<u16> as Deserialize<'de, R>>⟧.reads s.human R.lends) ⟦<Vec<u16> as RoundTrip<'de, R>>⟧.same j a8) _
              (list_only s _ (λ w. w.items) (⟦<u16 as Deserialize<'de, R>>⟧.reads s.human R.lends) ⟦<u16 as RoundTrip<'de, R>>⟧.same a8.items
              (slice_row s _ (λ ms. ReadsEach (Only (⟦<u16 as Deserialize<'de, R>>⟧.reads s.human R.lends) ⟦<u16 as RoundTrip<'de, R>>⟧.same) ms a8.items)
              (each_row s (λ x. ⟦<u16 as Serialize>⟧.data_of x s.human) ⟦<u16 as Serialize>⟧.is_value
              (Only (⟦<u16 as Deserialize<'de, R>>⟧.reads s.human R.lends) ⟦<u16 as RoundTrip<'de, R>>⟧.same) (λ x6 h6. (unsigned_only s 65535 x6)) a8.items
              fits.7))) (rows_cons s _ _ (λ j. Only (⟦<[u16; 3] as Deserialize<'de, R>>⟧.reads s.human R.lends) ⟦<[u16; 3] as RoundTrip<'de, R>>⟧.same j a9) _
              (array_only s _ 3 (⟦<u16 as Deserialize<'de, R>>⟧.reads s.human R.lends) ⟦<u16 as RoundTrip<'de, R>>⟧.same a9
              (tuple_row s _ (λ ms. ReadsEach (Only (⟦<u16 as Deserialize<'de, R>>⟧.reads s.human R.lends) ⟦<u16 as RoundTrip<'de, R>>⟧.same) ms a9)
              (each_row s (λ x. ⟦<u16 as Serialize>⟧.data_of x s.human) ⟦<u16 as Serialize>⟧.is_value
              (Only (⟦<u16 as Deserialize<'de, R>>⟧.reads s.human R.lends) ⟦<u16 as RoundTrip<'de, R>>⟧.same) (λ x7 h7. (unsigned_only s 65535 x7)) a9 fits.8.1)))
              (rows_cons s _ _ (λ j. Only (⟦<Spot as Deserialize<'de, R>>⟧.reads s.human R.lends) ⟦<Spot as RoundTrip<'de, R>>⟧.same j a10) _
              (spot_rounds.only-law R.row R.ReadSlice.own (given 0) R.Source (given 0) s a10 fits.9)
              (rows_cons s _ _ (λ j. Only (⟦<(u8, String) as Deserialize<'de, R>>⟧.reads s.human R.lends) ⟦<(u8, String) as RoundTrip<'de, R>>⟧.same j a11) _
              (lowers_then s _ _ (λ j. Only (⟦<(u8, String) as Deserialize<'de, R>>⟧.reads s.human R.lends) ⟦<(u8, String) as RoundTrip<'de, R>>⟧.same j a11)
              (tuple_row s _ _ (rows_cons s _ _ (λ j. Only (⟦<u8 as Deserialize<'de, R>>⟧.reads s.human R.lends) ⟦<u8 as RoundTrip<'de, R>>⟧.same j a11.0) _
              (byte_only s a11.0) (rows_cons s _ _ (λ j. Only (⟦<String as Deserialize<'de, R>>⟧.reads s.human R.lends) ⟦<String as RoundTrip<'de, R>>⟧.same j
              a11.1) _ (string_only s (λ w. string_bytes w) (string_bytes a11.1)) (rows_none s))))
              (λ m q w r. row_both _ _ _ m q r (item_only (⟦<u8 as Deserialize<'de, R>>⟧.reads s.human R.lends) ⟦<u8 as RoundTrip<'de, R>>⟧.same a11.0 w.0 _ _ _
              (last_only (⟦<String as Deserialize<'de, R>>⟧.reads s.human R.lends) ⟦<String as RoundTrip<'de, R>>⟧.same a11.1 w.1))))
              (rows_cons s _ _ (λ j. Only (⟦<ByteBuf as Deserialize<'de, R>>⟧.reads s.human R.lends) ⟦<ByteBuf as RoundTrip<'de, R>>⟧.same j a12) _
              (buffer_only s (λ w. buffer_bytes w) (buffer_bytes a12))
              (rows_cons s _ _ (λ j. Only (⟦<BTreeMap<String, u32> as Deserialize<'de, R>>⟧.reads s.human R.lends)
              ⟦<BTreeMap<String, u32> as RoundTrip<'de, R>>⟧.same j a13) _
              (entries_only (⟦<String as Deserialize<'de, R>>⟧.reads s.human R.lends) (⟦<u32 as Deserialize<'de, R>>⟧.reads s.human R.lends)
              ⟦<String as RoundTrip<'de, R>>⟧.same ⟦<u32 as RoundTrip<'de, R>>⟧.same s _ (λ w. w.entries) {cmp = ⟦<String as Ord>⟧.cmp}
              (on_total (λ x. string_bytes x) nat_list_cmp_total) (λ x y e. tied (slice_cmp nat_cmp) nat_list_cmp_total (string_bytes x) (string_bytes y) e)
              a13.entries fits.12.1 (pairs_row s (λ x. ⟦<String as Serialize>⟧.data_of x s.human) (λ x. ⟦<u32 as Serialize>⟧.data_of x s.human)
              ⟦<String as Serialize>⟧.is_value ⟦<u32 as Serialize>⟧.is_value
              (Only (⟦<String as Deserialize<'de, R>>⟧.reads s.human R.lends) ⟦<String as RoundTrip<'de, R>>⟧.same)
              (Only (⟦<u32 as Deserialize<'de, R>>⟧.reads s.human R.lends) ⟦<u32 as RoundTrip<'de, R>>⟧.same)
              (λ x8 h8. (string_only s (λ w. string_bytes w) (string_bytes x8))) (λ x9 h9. (unsigned_only s 4294967295 x9)) a13.entries fits.12.0))
              (rows_cons s _ _ (λ j. Only (⟦<i128 as Deserialize<'de, R>>⟧.reads s.human R.lends) ⟦<i128 as RoundTrip<'de, R>>⟧.same j a14) _
              (signed128_only s a14 fits.13) (rows_cons s _ _ (λ j. Only (⟦<() as Deserialize<'de, R>>⟧.reads s.human R.lends) ⟦<() as RoundTrip<'de, R>>⟧.same j
              a15) _ (unit_only s) (rows_cons s _ _ (λ j. Only (⟦<Option<Spot> as Deserialize<'de, R>>⟧.reads s.human R.lends)
              ⟦<Option<Spot> as RoundTrip<'de, R>>⟧.same j a16) _
              (option_only s _ (⟦<Spot as Deserialize<'de, R>>⟧.reads s.human R.lends) ⟦<Spot as RoundTrip<'de, R>>⟧.same a16
              (option_row s (λ x. ⟦<Spot as Serialize>⟧.data_of x s.human) ⟦<Spot as Serialize>⟧.is_value
              (Only (⟦<Spot as Deserialize<'de, R>>⟧.reads s.human R.lends) ⟦<Spot as RoundTrip<'de, R>>⟧.same) (λ x11. spot_other.never_nil-law s x11)
              (λ x10 h10. (spot_rounds.only-law R.row R.ReadSlice.own (given 0) R.Source (given 0) s x10 h10)) a16 fits.15)) (rows_none s))))))))))))))))))
              (λ m q w r. variant_both names 2 _ _ _ m q r (λ c a b. content_row _ _ _ c a b.17
              (λ ks i j. let x = item_only (⟦<u64 as Deserialize<'de, R>>⟧.reads s.human R.lends) ⟦<u64 as RoundTrip<'de, R>>⟧.same a1 b.0 _ _ _
              (item_only (⟦<String as Deserialize<'de, R>>⟧.reads s.human R.lends) ⟦<String as RoundTrip<'de, R>>⟧.same a2 b.1 _ _ _
              (item_only (⟦<i32 as Deserialize<'de, R>>⟧.reads s.human R.lends) ⟦<i32 as RoundTrip<'de, R>>⟧.same a3 b.2 _ _ _
              (item_only (⟦<Option<u16> as Deserialize<'de, R>>⟧.reads s.human R.lends) ⟦<Option<u16> as RoundTrip<'de, R>>⟧.same a4 b.3 _ _ _
              (item_only (⟦<bool as Deserialize<'de, R>>⟧.reads s.human R.lends) ⟦<bool as RoundTrip<'de, R>>⟧.same a5 b.4 _ _ _
              (item_only (⟦<char as Deserialize<'de, R>>⟧.reads s.human R.lends) ⟦<char as RoundTrip<'de, R>>⟧.same a6 b.5 _ _ _
              (item_only (⟦<F64Bits as Deserialize<'de, R>>⟧.reads s.human R.lends) ⟦<F64Bits as RoundTrip<'de, R>>⟧.same a7 b.6 _ _ _
              (item_only (⟦<Vec<u16> as Deserialize<'de, R>>⟧.reads s.human R.lends) ⟦<Vec<u16> as RoundTrip<'de, R>>⟧.same a8 b.7 _ _ _
              (item_only (⟦<[u16; 3] as Deserialize<'de, R>>⟧.reads s.human R.lends) ⟦<[u16; 3] as RoundTrip<'de, R>>⟧.same a9 b.8 _ _ _
              (item_only (⟦<Spot as Deserialize<'de, R>>⟧.reads s.human R.lends) ⟦<Spot as RoundTrip<'de, R>>⟧.same a10 b.9 _ _ _
              (item_only (⟦<(u8, String) as Deserialize<'de, R>>⟧.reads s.human R.lends) ⟦<(u8, String) as RoundTrip<'de, R>>⟧.same a11 b.10 _ _ _
              (item_only (⟦<ByteBuf as Deserialize<'de, R>>⟧.reads s.human R.lends) ⟦<ByteBuf as RoundTrip<'de, R>>⟧.same a12 b.11 _ _ _
              (item_only (⟦<BTreeMap<String, u32> as Deserialize<'de, R>>⟧.reads s.human R.lends) ⟦<BTreeMap<String, u32> as RoundTrip<'de, R>>⟧.same a13 b.12 _ _
              _ (item_only (⟦<i128 as Deserialize<'de, R>>⟧.reads s.human R.lends) ⟦<i128 as RoundTrip<'de, R>>⟧.same a14 b.13 _ _ _
              (item_only (⟦<() as Deserialize<'de, R>>⟧.reads s.human R.lends) ⟦<() as RoundTrip<'de, R>>⟧.same a15 b.14 _ _ _
              (last_only (⟦<Option<Spot> as Deserialize<'de, R>>⟧.reads s.human R.lends) ⟦<Option<Spot> as RoundTrip<'de, R>>⟧.same a16 b.15))))))))))))))) ks i j
              in (
                b.0,
                b.1,
                b.2,
                b.3,
                b.4,
                b.5,
                b.6,
                b.7,
                b.8,
                b.9,
                b.10,
                b.11,
                b.12,
                b.13,
                b.14,
                b.15,
                b.16,
                x.0,
                x.1.0,
                x.1.1.0,
                x.1.1.1.0,
                x.1.1.1.1.0,
                x.1.1.1.1.1.0,
                x.1.1.1.1.1.1.0,
                x.1.1.1.1.1.1.1.0,
                x.1.1.1.1.1.1.1.1.0,
                x.1.1.1.1.1.1.1.1.1.0,
                x.1.1.1.1.1.1.1.1.1.1.0,
                x.1.1.1.1.1.1.1.1.1.1.1.0,
                x.1.1.1.1.1.1.1.1.1.1.1.1.0,
                x.1.1.1.1.1.1.1.1.1.1.1.1.1.0,
                x.1.1.1.1.1.1.1.1.1.1.1.1.1.1.0,
                x.1.1.1.1.1.1.1.1.1.1.1.1.1.1.1,
              ))))
        ] };
}

impl NeverNil for Line {
    ghost never_nil = { λ s. elim [
      | the_line.Empty ↦ bare_other s (codes "Empty")
      | the_line.Short a1 a2 a3 a4 a5 a6 a7 a8 a9 ↦ tuple_variant_other s
          (codes "Short") _
      | the_line.Long a1 a2 a3 a4 a5 a6 a7 a8 a9 a10 a11 a12 a13 a14 a15 a16 ↦ tuple_variant_other s (codes "Long") _
    ] };
}

impl<'de, R: ReadSlice<'de>> EndsInside<'de, R> for Line {
    ghost use Rattle.test_mixed.specs.contracts.mixed.derived.SpotEndsInside.TheImpl.Laws as spot_ends;
    ghost use mir.Syntax.{given};

    ghost ends_inside = { enum_inside _ _ (
      no_content_inside,
      (
        with_content_inside _ (tuple_inside (part_of ⟦<u8 as Deserialize<'de, R>>⟧.reads ⟦<u8 as Deserialize<'de, R>>⟧.refuses
            ∷ (part_of ⟦<String as Deserialize<'de, R>>⟧.reads ⟦<String as Deserialize<'de, R>>⟧.refuses
            ∷ (part_of ⟦<i16 as Deserialize<'de, R>>⟧.reads ⟦<i16 as Deserialize<'de, R>>⟧.refuses
            ∷ (part_of ⟦<Option<u16> as Deserialize<'de, R>>⟧.reads ⟦<Option<u16> as Deserialize<'de, R>>⟧.refuses
            ∷ (part_of ⟦<bool as Deserialize<'de, R>>⟧.reads ⟦<bool as Deserialize<'de, R>>⟧.refuses
            ∷ (part_of ⟦<Vec<u16> as Deserialize<'de, R>>⟧.reads ⟦<Vec<u16> as Deserialize<'de, R>>⟧.refuses
            ∷ (part_of ⟦<char as Deserialize<'de, R>>⟧.reads ⟦<char as Deserialize<'de, R>>⟧.refuses
            ∷ (part_of ⟦<Spot as Deserialize<'de, R>>⟧.reads ⟦<Spot as Deserialize<'de, R>>⟧.refuses
            ∷ (part_of ⟦<u32 as Deserialize<'de, R>>⟧.reads ⟦<u32 as Deserialize<'de, R>>⟧.refuses ∷ []))))))))) (
              number_inside,
              (
                string_inside,
                (
                  number_inside,
                  (
                    (option_inside ⟦<u16 as Deserialize<'de, R>>⟧.refuses number_inside),
                    (
                      kind_inside,
                      (
                        (each_inside ⟦<u16 as Deserialize<'de, R>>⟧.reads ⟦<u16 as Deserialize<'de, R>>⟧.refuses number_inside),
                        (char_inside, ((spot_ends.ends_inside-law R.row R.ReadSlice.own (given 0) R.Source (given 0)), (number_inside, tt))),
                      ),
                    ),
                  ),
                ),
              ),
            )),
        (
          with_content_inside _ (tuple_inside (part_of ⟦<u64 as Deserialize<'de, R>>⟧.reads ⟦<u64 as Deserialize<'de, R>>⟧.refuses
              ∷ (part_of ⟦<String as Deserialize<'de, R>>⟧.reads ⟦<String as Deserialize<'de, R>>⟧.refuses
              ∷ (part_of ⟦<i32 as Deserialize<'de, R>>⟧.reads ⟦<i32 as Deserialize<'de, R>>⟧.refuses
              ∷ (part_of ⟦<Option<u16> as Deserialize<'de, R>>⟧.reads ⟦<Option<u16> as Deserialize<'de, R>>⟧.refuses
              ∷ (part_of ⟦<bool as Deserialize<'de, R>>⟧.reads ⟦<bool as Deserialize<'de, R>>⟧.refuses
              ∷ (part_of ⟦<char as Deserialize<'de, R>>⟧.reads ⟦<char as Deserialize<'de, R>>⟧.refuses
              ∷ (part_of ⟦<F64Bits as Deserialize<'de, R>>⟧.reads ⟦<F64Bits as Deserialize<'de, R>>⟧.refuses
              ∷ (part_of ⟦<Vec<u16> as Deserialize<'de, R>>⟧.reads ⟦<Vec<u16> as Deserialize<'de, R>>⟧.refuses
              ∷ (part_of ⟦<[u16; 3] as Deserialize<'de, R>>⟧.reads ⟦<[u16; 3] as Deserialize<'de, R>>⟧.refuses
              ∷ (part_of ⟦<Spot as Deserialize<'de, R>>⟧.reads ⟦<Spot as Deserialize<'de, R>>⟧.refuses
              ∷ (part_of ⟦<(u8, String) as Deserialize<'de, R>>⟧.reads ⟦<(u8, String) as Deserialize<'de, R>>⟧.refuses
              ∷ (part_of ⟦<ByteBuf as Deserialize<'de, R>>⟧.reads ⟦<ByteBuf as Deserialize<'de, R>>⟧.refuses
              ∷ (part_of ⟦<BTreeMap<String, u32> as Deserialize<'de, R>>⟧.reads ⟦<BTreeMap<String, u32> as Deserialize<'de, R>>⟧.refuses
              ∷ (part_of ⟦<i128 as Deserialize<'de, R>>⟧.reads ⟦<i128 as Deserialize<'de, R>>⟧.refuses
              ∷ (part_of ⟦<() as Deserialize<'de, R>>⟧.reads ⟦<() as Deserialize<'de, R>>⟧.refuses
              ∷ (part_of ⟦<Option<Spot> as Deserialize<'de, R>>⟧.reads ⟦<Option<Spot> as Deserialize<'de, R>>⟧.refuses ∷ [])))))))))))))))) (
                number_inside,
                (
                  string_inside,
                  (
                    number_inside,
                    (
                      (option_inside ⟦<u16 as Deserialize<'de, R>>⟧.refuses number_inside),
                      (
                        kind_inside,
                        (
                          char_inside,
                          (
                            kind_inside,
                            (
                              (each_inside ⟦<u16 as Deserialize<'de, R>>⟧.reads ⟦<u16 as Deserialize<'de, R>>⟧.refuses number_inside),
                              (
                                (array_inside _ 3 ⟦<u16 as Deserialize<'de, R>>⟧.reads ⟦<u16 as Deserialize<'de, R>>⟧.refuses number_inside),
                                (
                                  (spot_ends.ends_inside-law R.row R.ReadSlice.own (given 0) R.Source (given 0)),
                                  (
                                    (tuple_inside (part_of ⟦<u8 as Deserialize<'de, R>>⟧.reads ⟦<u8 as Deserialize<'de, R>>⟧.refuses
                                        ∷ (part_of ⟦<String as Deserialize<'de, R>>⟧.reads ⟦<String as Deserialize<'de, R>>⟧.refuses ∷ [])) (number_inside, (string_inside, tt))),
                                    (
                                      buffer_inside,
                                      (
                                        (map_inside ⟦<String as Deserialize<'de, R>>⟧.reads ⟦<u32 as Deserialize<'de, R>>⟧.reads ⟦<String as Deserialize<'de, R>>⟧.refuses
                                            ⟦<u32 as Deserialize<'de, R>>⟧.refuses string_inside number_inside),
                                        (
                                          signed128_inside,
                                          (
                                            nil_inside,
                                            (
                                              (option_inside ⟦<Spot as Deserialize<'de, R>>⟧.refuses
                                                  (spot_ends.ends_inside-law R.row R.ReadSlice.own (given 0) R.Source (given 0))),
                                              tt,
                                            ),
                                          ),
                                        ),
                                      ),
                                    ),
                                  ),
                                ),
                              ),
                            ),
                          ),
                        ),
                      ),
                    ),
                  ),
                ),
              )),
          tt,
        ),
      ),
    ) };
}

impl Serialize for Papers {
    ghost data_of = { λ v human. structure_of ((codes "number", ⟦<u64 as Serialize>⟧.data_of v.number human)
        ∷ ((codes "name", ⟦<String as Serialize>⟧.data_of v.name human)
        ∷ ((codes "born", ⟦<u16 as Serialize>⟧.data_of v.born human)
        ∷ ((codes "chip", ⟦<Option<u64> as Serialize>⟧.data_of v.chip human)
        ∷ ((codes "mother", ⟦<Option<u64> as Serialize>⟧.data_of v.mother human)
        ∷ ((codes "father", ⟦<Option<u64> as Serialize>⟧.data_of v.father human)
        ∷ ((codes "weight", ⟦<u8 as Serialize>⟧.data_of v.weight human)
        ∷ ((codes "height", ⟦<i8 as Serialize>⟧.data_of v.height human)
        ∷ ((codes "vaccinated", ⟦<bool as Serialize>⟧.data_of v.vaccinated human) ∷ []))))))))) };

    ghost is_value = { λ v. ⟦<u64 as Serialize>⟧.is_value v.number × ⟦<String as Serialize>⟧.is_value v.name × ⟦<u16 as Serialize>⟧.is_value v.born
        × ⟦<Option<u64> as Serialize>⟧.is_value v.chip × ⟦<Option<u64> as Serialize>⟧.is_value v.mother × ⟦<Option<u64> as Serialize>⟧.is_value v.father
        × ⟦<u8 as Serialize>⟧.is_value v.weight × ⟦<i8 as Serialize>⟧.is_value v.height × ⟦<bool as Serialize>⟧.is_value v.vaccinated };

    ghost takes_memory = { λ s. one_of (⟦<u64 as Serialize>⟧.takes_memory s
        ∷ (⟦<String as Serialize>⟧.takes_memory s ∷ (⟦<u16 as Serialize>⟧.takes_memory s
        ∷ (⟦<Option<u64> as Serialize>⟧.takes_memory s ∷ (⟦<Option<u64> as Serialize>⟧.takes_memory s
        ∷ (⟦<Option<u64> as Serialize>⟧.takes_memory s ∷ (⟦<u8 as Serialize>⟧.takes_memory s
        ∷ (⟦<i8 as Serialize>⟧.takes_memory s ∷ (⟦<bool as Serialize>⟧.takes_memory s ∷ []))))))))) };

    ghost refuses = { λ v. OfParts ⊥ (⟦<u64 as Serialize>⟧.refuses v.number
        ∷ (⟦<String as Serialize>⟧.refuses v.name ∷ (⟦<u16 as Serialize>⟧.refuses v.born
        ∷ (⟦<Option<u64> as Serialize>⟧.refuses v.chip ∷ (⟦<Option<u64> as Serialize>⟧.refuses v.mother
        ∷ (⟦<Option<u64> as Serialize>⟧.refuses v.father ∷
        (⟦<u8 as Serialize>⟧.refuses v.weight ∷ (⟦<i8 as Serialize>⟧.refuses v.height ∷ (⟦<bool as Serialize>⟧.refuses v.vaccinated ∷ []))))))))) };

    fn serialize<W: Sink, C: SerializerConfig>(
        &self,
        se: &mut Serializer<W, C>,
    ) -> Result<(), rmp_encode::Error> {
        let parts = NineParts {
            first: &self.number,
            second: &self.name,
            third: &self.born,
            fourth: &self.chip,
            fifth: &self.mother,
            sixth: &self.father,
            seventh: &self.weight,
            eighth: &self.height,
            ninth: &self.vaccinated,
        };
        se.serialize_fields(
            "Papers",
            &[
                "number",
                "name",
                "born",
                "chip",
                "mother",
                "father",
                "weight",
                "height",
                "vaccinated",
            ],
            &parts,
        )
    }

    #[tactic(auto, using(rmp_encode::proofs::Fields::structure_no_byte))]
    fn as_u8(&self, _human: bool) -> Option<u8> {
        None
    }
}

impl<'de, R: ReadSlice<'de>> Deserialize<'de, R> for Papers {
    ghost reads = { λ human lends m v. OfFields (codes "number"
        ∷ (codes "name" ∷ (codes "born" ∷ (codes "chip" ∷ (codes "mother"
        ∷ (codes "father" ∷ (codes "weight" ∷ (codes "height" ∷ (codes "vaccinated" ∷ [])))))))))
        (Field (λ j. ⟦<u64 as Deserialize<'de, R>>⟧.reads human lends j v.number) (Absent ⟦<u64 as Deserialize<'de, R>>⟧.absent v.number)
        (Field (λ j. ⟦<String as Deserialize<'de, R>>⟧.reads human lends j v.name) (Absent ⟦<String as Deserialize<'de, R>>⟧.absent v.name)
        (Field (λ j. ⟦<u16 as Deserialize<'de, R>>⟧.reads human lends j v.born) (Absent ⟦<u16 as Deserialize<'de, R>>⟧.absent v.born)
        (Field (λ j. ⟦<Option<u64> as Deserialize<'de, R>>⟧.reads human lends j v.chip) (Absent ⟦<Option<u64> as Deserialize<'de, R>>⟧.absent v.chip)
        (Field (λ j. ⟦<Option<u64> as Deserialize<'de, R>>⟧.reads human lends j v.mother) (Absent ⟦<Option<u64> as Deserialize<'de, R>>⟧.absent v.mother)
        (Field (λ j. ⟦<Option<u64> as Deserialize<'de, R>>⟧.reads human lends j v.father) (Absent ⟦<Option<u64> as Deserialize<'de, R>>⟧.absent v.father)
        (Field (λ j. ⟦<u8 as Deserialize<'de, R>>⟧.reads human lends j v.weight) (Absent ⟦<u8 as Deserialize<'de, R>>⟧.absent v.weight)
        (Field (λ j. ⟦<i8 as Deserialize<'de, R>>⟧.reads human lends j v.height) (Absent ⟦<i8 as Deserialize<'de, R>>⟧.absent v.height)
        (Field (λ j. ⟦<bool as Deserialize<'de, R>>⟧.reads human lends j v.vaccinated) (Absent ⟦<bool as Deserialize<'de, R>>⟧.absent v.vaccinated)
        NoField))))))))) m };

    ghost absent = { None };

    ghost refuses = { RefusesFields (codes "number" ∷ (codes "name"
        ∷ (codes "born" ∷ (codes "chip" ∷ (codes "mother" ∷ (codes "father" ∷ (codes "weight" ∷ (codes "height" ∷ (codes "vaccinated" ∷ [])))))))))
        (is_none ⟦<u64 as Deserialize<'de, R>>⟧.absent ∷ (is_none ⟦<String as Deserialize<'de, R>>⟧.absent
        ∷ (is_none ⟦<u16 as Deserialize<'de, R>>⟧.absent ∷
        (is_none ⟦<Option<u64> as Deserialize<'de, R>>⟧.absent
        ∷ (is_none ⟦<Option<u64> as Deserialize<'de, R>>⟧.absent
        ∷ (is_none ⟦<Option<u64> as Deserialize<'de, R>>⟧.absent
        ∷ (is_none ⟦<u8 as Deserialize<'de, R>>⟧.absent ∷ (is_none ⟦<i8 as Deserialize<'de, R>>⟧.absent
        ∷ (is_none ⟦<bool as Deserialize<'de, R>>⟧.absent ∷ [])))))))))
        (part_of ⟦<u64 as Deserialize<'de, R>>⟧.reads ⟦<u64 as Deserialize<'de, R>>⟧.refuses
        ∷ (part_of ⟦<String as Deserialize<'de, R>>⟧.reads ⟦<String as Deserialize<'de, R>>⟧.refuses
        ∷ (part_of ⟦<u16 as Deserialize<'de, R>>⟧.reads ⟦<u16 as Deserialize<'de, R>>⟧.refuses
        ∷ (part_of ⟦<Option<u64> as Deserialize<'de, R>>⟧.reads ⟦<Option<u64> as Deserialize<'de, R>>⟧.refuses
        ∷ (part_of ⟦<Option<u64> as Deserialize<'de, R>>⟧.reads ⟦<Option<u64> as Deserialize<'de, R>>⟧.refuses
        ∷ (part_of ⟦<Option<u64> as Deserialize<'de, R>>⟧.reads ⟦<Option<u64> as Deserialize<'de, R>>⟧.refuses
        ∷ (part_of ⟦<u8 as Deserialize<'de, R>>⟧.reads ⟦<u8 as Deserialize<'de, R>>⟧.refuses
        ∷ (part_of ⟦<i8 as Deserialize<'de, R>>⟧.reads ⟦<i8 as Deserialize<'de, R>>⟧.refuses
        ∷ (part_of ⟦<bool as Deserialize<'de, R>>⟧.reads ⟦<bool as Deserialize<'de, R>>⟧.refuses ∷ []))))))))) };

    fn deserialize<C: SerializerConfig>(
        de: &mut Deserializer<R, C>,
    ) -> Result<Papers, rmp_decode::Error> {
        let read: Result<
            (
                u64,
                String,
                u16,
                Option<u64>,
                (Option<u64>, Option<u64>, u8, i8, (bool, ())),
            ),
            rmp_decode::Error,
        > = rmp_decode::read_fields_9(
            de,
            &[
                "number",
                "name",
                "born",
                "chip",
                "mother",
                "father",
                "weight",
                "height",
                "vaccinated",
            ],
        );
        match read {
            Ok(parts) => {
                let (number, name, born, chip, (mother, father, weight, height, (vaccinated, ()))) =
                    parts;
                return Ok(Papers {
                    number,
                    name,
                    born,
                    chip,
                    mother,
                    father,
                    weight,
                    height,
                    vaccinated,
                });
            }
            Err(e) => return Err(e),
        }
    }

    fn missing() -> Option<Papers> {
        None
    }
}

impl<'de, R: ReadSlice<'de>> RoundTrip<'de, R> for Papers {
    ghost has_data = { λ human v. structure_all ((codes "number", ⟦<u64 as Serialize>⟧.data_of v.number human)
        ∷ ((codes "name", ⟦<String as Serialize>⟧.data_of v.name human)
        ∷ ((codes "born", ⟦<u16 as Serialize>⟧.data_of v.born human)
        ∷ ((codes "chip", ⟦<Option<u64> as Serialize>⟧.data_of v.chip human)
        ∷ ((codes "mother", ⟦<Option<u64> as Serialize>⟧.data_of v.mother human)
        ∷ ((codes "father", ⟦<Option<u64> as Serialize>⟧.data_of v.father human)
        ∷ ((codes "weight", ⟦<u8 as Serialize>⟧.data_of v.weight human)
        ∷ ((codes "height", ⟦<i8 as Serialize>⟧.data_of v.height human)
        ∷ ((codes "vaccinated", ⟦<bool as Serialize>⟧.data_of v.vaccinated human) ∷ []))))))))) (
          refl,
          (
            refl,
            (
              refl,
              (
                (option_some (λ x. ⟦<u64 as Serialize>⟧.data_of x human) (λ x1. refl) v.chip),
                (
                  (option_some (λ x. ⟦<u64 as Serialize>⟧.data_of x human) (λ x2. refl) v.mother),
                  ((option_some (λ x. ⟦<u64 as Serialize>⟧.data_of x human) (λ x3. refl) v.father), (refl, (refl, (refl, tt)))),
                ),
              ),
            ),
          ),
        ) };

    ghost round = { λ lent s v fits. structure_row s (codes "number"
        ∷ (codes "name" ∷ (codes "born" ∷ (codes "chip" ∷ (codes "mother"
        ∷ (codes "father" ∷ (codes "weight" ∷ (codes "height" ∷ (codes "vaccinated" ∷ []))))))))) _ _ refl
        (fields_cons s (codes "number") _ _ _ (λ j. ⟦<u64 as Deserialize<'de, R>>⟧.reads s.human R.lends j v.number)
        (Absent ⟦<u64 as Deserialize<'de, R>>⟧.absent v.number) _ (unsigned_row_64 s v.number fits.0)
        (fields_cons s (codes "name") _ _ _ (λ j. ⟦<String as Deserialize<'de, R>>⟧.reads s.human R.lends j v.name)
        (Absent ⟦<String as Deserialize<'de, R>>⟧.absent v.name) _ (string_row s (string_bytes v.name))
        (fields_cons s (codes "born") _ _ _ (λ j. ⟦<u16 as Deserialize<'de, R>>⟧.reads s.human R.lends j v.born)
        (Absent ⟦<u16 as Deserialize<'de, R>>⟧.absent v.born) _ (unsigned_row_16 s v.born fits.2)
        (fields_cons s (codes "chip") _ _ _ (λ j. ⟦<Option<u64> as Deserialize<'de, R>>⟧.reads s.human R.lends j v.chip)
        (Absent ⟦<Option<u64> as Deserialize<'de, R>>⟧.absent v.chip) _
        (option_row s (λ x. ⟦<u64 as Serialize>⟧.data_of x s.human) ⟦<u64 as Serialize>⟧.is_value (⟦<u64 as Deserialize<'de, R>>⟧.reads s.human R.lends)
        (λ x5. pos_other s x5) (λ x4 h4. (unsigned_row_64 s x4 h4)) v.chip fits.3)
        (fields_cons s (codes "mother") _ _ _ (λ j. ⟦<Option<u64> as Deserialize<'de, R>>⟧.reads s.human R.lends j v.mother)
        (Absent ⟦<Option<u64> as Deserialize<'de, R>>⟧.absent v.mother) _
        (option_row s (λ x. ⟦<u64 as Serialize>⟧.data_of x s.human) ⟦<u64 as Serialize>⟧.is_value (⟦<u64 as Deserialize<'de, R>>⟧.reads s.human R.lends)
        (λ x7. pos_other s x7) (λ x6 h6. (unsigned_row_64 s x6 h6)) v.mother fits.4)
        (fields_cons s (codes "father") _ _ _ (λ j. ⟦<Option<u64> as Deserialize<'de, R>>⟧.reads s.human R.lends j v.father)
        (Absent ⟦<Option<u64> as Deserialize<'de, R>>⟧.absent v.father) _
        (option_row s (λ x. ⟦<u64 as Serialize>⟧.data_of x s.human) ⟦<u64 as Serialize>⟧.is_value (⟦<u64 as Deserialize<'de, R>>⟧.reads s.human R.lends)
        (λ x9. pos_other s x9) (λ x8 h8. (unsigned_row_64 s x8 h8)) v.father fits.5)
        (fields_cons s (codes "weight") _ _ _ (λ j. ⟦<u8 as Deserialize<'de, R>>⟧.reads s.human R.lends j v.weight)
        (Absent ⟦<u8 as Deserialize<'de, R>>⟧.absent v.weight) _ (byte_row s v.weight fits.6)
        (fields_cons s (codes "height") _ _ _ (λ j. ⟦<i8 as Deserialize<'de, R>>⟧.reads s.human R.lends j v.height)
        (Absent ⟦<i8 as Deserialize<'de, R>>⟧.absent v.height) _ (signed_row_8 s v.height fits.7)
        (fields_cons s (codes "vaccinated") _ _ _ (λ j. ⟦<bool as Deserialize<'de, R>>⟧.reads s.human R.lends j v.vaccinated)
        (Absent ⟦<bool as Deserialize<'de, R>>⟧.absent v.vaccinated) _ (truth_row s v.vaccinated) (fields_none s)))))))))) };

    ghost same = { λ v w. ⟦<u64 as RoundTrip<'de, R>>⟧.same v.number w.number × ⟦<String as RoundTrip<'de, R>>⟧.same v.name w.name
        × ⟦<u16 as RoundTrip<'de, R>>⟧.same v.born w.born × ⟦<Option<u64> as RoundTrip<'de, R>>⟧.same v.chip w.chip
        × ⟦<Option<u64> as RoundTrip<'de, R>>⟧.same v.mother w.mother × ⟦<Option<u64> as RoundTrip<'de, R>>⟧.same v.father w.father
        × ⟦<u8 as RoundTrip<'de, R>>⟧.same v.weight w.weight × ⟦<i8 as RoundTrip<'de, R>>⟧.same v.height w.height
        × ⟦<bool as RoundTrip<'de, R>>⟧.same v.vaccinated w.vaccinated };

    ghost alike = { λ human v w h i. structure_of ((codes "number", (⟦<u64 as Serialize>⟧.data_of (h.0 i) human))
        ∷ ((codes "name", (text_alike (string_bytes v.name) (string_bytes w.name) h.1 i))
        ∷ ((codes "born", (⟦<u16 as Serialize>⟧.data_of (h.2 i) human))
        ∷ ((
          codes "chip",
          (option_alike ⟦<u64 as RoundTrip<'de, R>>⟧.same (λ x. ⟦<u64 as Serialize>⟧.data_of x human)
              (λ x7 yx7 h7 i. (⟦<u64 as Serialize>⟧.data_of (h7 i) human)) v.chip w.chip h.3 i),
        )
        ∷ ((
          codes "mother",
          (option_alike ⟦<u64 as RoundTrip<'de, R>>⟧.same (λ x. ⟦<u64 as Serialize>⟧.data_of x human)
              (λ x8 yx8 h8 i. (⟦<u64 as Serialize>⟧.data_of (h8 i) human)) v.mother w.mother h.4 i),
        )
        ∷ ((
          codes "father",
          (option_alike ⟦<u64 as RoundTrip<'de, R>>⟧.same (λ x. ⟦<u64 as Serialize>⟧.data_of x human)
              (λ x9 yx9 h9 i. (⟦<u64 as Serialize>⟧.data_of (h9 i) human)) v.father w.father h.5 i),
        )
        ∷ ((codes "weight", (⟦<u8 as Serialize>⟧.data_of (h.6 i) human))
        ∷ ((codes "height", (⟦<i8 as Serialize>⟧.data_of (h.7 i) human))
        ∷ ((codes "vaccinated", (⟦<bool as Serialize>⟧.data_of (h.8 i) human)) ∷ []))))))))) };

    ghost only = { λ s v fits. lowers_then s _ _ (λ m. (w : _) → (⟦<Papers as Deserialize<'de, R>>⟧.reads s.human R.lends) m w
        → ⟦<u64 as RoundTrip<'de, R>>⟧.same v.number w.number × ⟦<String as RoundTrip<'de, R>>⟧.same v.name w.name
        × ⟦<u16 as RoundTrip<'de, R>>⟧.same v.born w.born × ⟦<Option<u64> as RoundTrip<'de, R>>⟧.same v.chip w.chip
        × ⟦<Option<u64> as RoundTrip<'de, R>>⟧.same v.mother w.mother × ⟦<Option<u64> as RoundTrip<'de, R>>⟧.same v.father w.father
        × ⟦<u8 as RoundTrip<'de, R>>⟧.same v.weight w.weight × ⟦<i8 as RoundTrip<'de, R>>⟧.same v.height w.height
        × ⟦<bool as RoundTrip<'de, R>>⟧.same v.vaccinated w.vaccinated)
        (structure_row s (codes "number" ∷ (codes "name" ∷
        (codes "born" ∷ (codes "chip" ∷ (codes "mother" ∷ (codes "father" ∷ (codes "weight" ∷ (codes "height" ∷ (codes "vaccinated" ∷ []))))))))) _ _ refl
        (fields_cons s (codes "number") _ _ _ (λ j. Only (⟦<u64 as Deserialize<'de, R>>⟧.reads s.human R.lends) ⟦<u64 as RoundTrip<'de, R>>⟧.same j
        v.number) ⊥ _ (unsigned_only s 18446744073709551615 v.number)
        (fields_cons s (codes "name") _ _ _ (λ j. Only (⟦<String as Deserialize<'de, R>>⟧.reads s.human R.lends) ⟦<String as RoundTrip<'de, R>>⟧.same j
        v.name) ⊥ _ (string_only s (λ w. string_bytes w) (string_bytes v.name))
        (fields_cons s (codes "born") _ _ _ (λ j. Only (⟦<u16 as Deserialize<'de, R>>⟧.reads s.human R.lends) ⟦<u16 as RoundTrip<'de, R>>⟧.same j v.born) ⊥
        _ (unsigned_only s 65535 v.born) (fields_cons s (codes "chip") _ _ _
        (λ j. Only (⟦<Option<u64> as Deserialize<'de, R>>⟧.reads s.human R.lends) ⟦<Option<u64> as RoundTrip<'de, R>>⟧.same j v.chip) ⊥ _
        (option_only s _ (⟦<u64 as Deserialize<'de, R>>⟧.reads s.human R.lends) ⟦<u64 as RoundTrip<'de, R>>⟧.same v.chip
        (option_row s (λ x. ⟦<u64 as Serialize>⟧.data_of x s.human) ⟦<u64 as Serialize>⟧.is_value
        (Only (⟦<u64 as Deserialize<'de, R>>⟧.reads s.human R.lends) ⟦<u64 as RoundTrip<'de, R>>⟧.same) (λ x2. pos_other s x2)
        (λ x1 h1. (unsigned_only s 18446744073709551615 x1)) v.chip fits.3))
        (fields_cons s (codes "mother") _ _ _ (λ j. Only (⟦<Option<u64> as Deserialize<'de, R>>⟧.reads s.human R.lends)
        ⟦<Option<u64> as RoundTrip<'de, R>>⟧.same j v.mother) ⊥ _
        (option_only s _ (⟦<u64 as Deserialize<'de, R>>⟧.reads s.human R.lends) ⟦<u64 as RoundTrip<'de, R>>⟧.same v.mother
        (option_row s (λ x. ⟦<u64 as Serialize>⟧.data_of x s.human) ⟦<u64 as Serialize>⟧.is_value
        (Only (⟦<u64 as Deserialize<'de, R>>⟧.reads s.human R.lends) ⟦<u64 as RoundTrip<'de, R>>⟧.same) (λ x4. pos_other s x4)
        (λ x3 h3. (unsigned_only s 18446744073709551615 x3)) v.mother fits.4))
        (fields_cons s (codes "father") _ _ _ (λ j. Only (⟦<Option<u64> as Deserialize<'de, R>>⟧.reads s.human R.lends)
        ⟦<Option<u64> as RoundTrip<'de, R>>⟧.same j v.father) ⊥ _
        (option_only s _ (⟦<u64 as Deserialize<'de, R>>⟧.reads s.human R.lends) ⟦<u64 as RoundTrip<'de, R>>⟧.same v.father
        (option_row s (λ x. ⟦<u64 as Serialize>⟧.data_of x s.human) ⟦<u64 as Serialize>⟧.is_value
        (Only (⟦<u64 as Deserialize<'de, R>>⟧.reads s.human R.lends) ⟦<u64 as RoundTrip<'de, R>>⟧.same) (λ x6. pos_other s x6)
        (λ x5 h5. (unsigned_only s 18446744073709551615 x5)) v.father fits.5))
        (fields_cons s (codes "weight") _ _ _ (λ j. Only (⟦<u8 as Deserialize<'de, R>>⟧.reads s.human R.lends) ⟦<u8 as RoundTrip<'de, R>>⟧.same j v.weight)
        ⊥ _ (byte_only s v.weight) (fields_cons s (codes "height") _ _ _
        (λ j. Only (⟦<i8 as Deserialize<'de, R>>⟧.reads s.human R.lends) ⟦<i8 as RoundTrip<'de, R>>⟧.same j v.height) ⊥ _
        (signed_only s (negsuc 127) (pos 127) v.height) (fields_cons s (codes "vaccinated") _ _ _
        (λ j. Only (⟦<bool as Deserialize<'de, R>>⟧.reads s.human R.lends) ⟦<bool as RoundTrip<'de, R>>⟧.same j v.vaccinated) ⊥ _
        (truth_only s v.vaccinated) (fields_none s)))))))))))
        (λ m q w r. fields_both (codes "number" ∷ (codes "name"
        ∷ (codes "born" ∷ (codes "chip" ∷ (codes "mother" ∷ (codes "father" ∷ (codes "weight" ∷ (codes "height" ∷ (codes "vaccinated" ∷ []))))))))) _ _ _ m
        q r (λ ks i j. let x = field_only (⟦<u64 as Deserialize<'de, R>>⟧.reads s.human R.lends) ⟦<u64 as RoundTrip<'de, R>>⟧.same v.number w.number _ _ _ _
        (field_only (⟦<String as Deserialize<'de, R>>⟧.reads s.human R.lends) ⟦<String as RoundTrip<'de, R>>⟧.same v.name w.name _ _ _ _
        (field_only (⟦<u16 as Deserialize<'de, R>>⟧.reads s.human R.lends) ⟦<u16 as RoundTrip<'de, R>>⟧.same v.born w.born _ _ _ _
        (field_only (⟦<Option<u64> as Deserialize<'de, R>>⟧.reads s.human R.lends) ⟦<Option<u64> as RoundTrip<'de, R>>⟧.same v.chip w.chip _ _ _ _
        (field_only (⟦<Option<u64> as Deserialize<'de, R>>⟧.reads s.human R.lends) ⟦<Option<u64> as RoundTrip<'de, R>>⟧.same v.mother w.mother _ _ _ _
        (field_only (⟦<Option<u64> as Deserialize<'de, R>>⟧.reads s.human R.lends) ⟦<Option<u64> as RoundTrip<'de, R>>⟧.same v.father w.father _ _ _ _
        (field_only (⟦<u8 as Deserialize<'de, R>>⟧.reads s.human R.lends) ⟦<u8 as RoundTrip<'de, R>>⟧.same v.weight w.weight _ _ _ _
        (field_only (⟦<i8 as Deserialize<'de, R>>⟧.reads s.human R.lends) ⟦<i8 as RoundTrip<'de, R>>⟧.same v.height w.height _ _ _ _
        (last_field (⟦<bool as Deserialize<'de, R>>⟧.reads s.human R.lends) ⟦<bool as RoundTrip<'de, R>>⟧.same v.vaccinated w.vaccinated _)))))))) ks i j
        in (x.0, x.1.0, x.1.1.0, x.1.1.1.0, x.1.1.1.1.0, x.1.1.1.1.1.0, x.1.1.1.1.1.1.0, x.1.1.1.1.1.1.1.0, x.1.1.1.1.1.1.1.1))) };
}

impl NeverNil for Papers {
    ghost never_nil = { λ s v. structure_other s _ };
}

impl<'de, R: ReadSlice<'de>> EndsInside<'de, R> for Papers {
    ghost ends_inside = { fields_inside _ _ _ (
      number_inside,
      (
        string_inside,
        (
          number_inside,
          (
            (option_inside ⟦<u64 as Deserialize<'de, R>>⟧.refuses number_inside),
            (
              (option_inside ⟦<u64 as Deserialize<'de, R>>⟧.refuses number_inside),
              ((option_inside ⟦<u64 as Deserialize<'de, R>>⟧.refuses number_inside), (number_inside, (number_inside, (kind_inside, tt)))),
            ),
          ),
        ),
      ),
    ) };
}

// 9 values, the first 8 of which are written before the others.
#[derive(Drop)]
struct NineParts<'r, E1, E2, E3, E4, E5, E6, E7, E8, E9> {
    first: &'r E1,
    second: &'r E2,
    third: &'r E3,
    fourth: &'r E4,
    fifth: &'r E5,
    sixth: &'r E6,
    seventh: &'r E7,
    eighth: &'r E8,
    ninth: &'r E9,
}

impl<
    'r,
    E1: Serialize,
    E2: Serialize,
    E3: Serialize,
    E4: Serialize,
    E5: Serialize,
    E6: Serialize,
    E7: Serialize,
    E8: Serialize,
    E9: Serialize,
> Elements for NineParts<'r, E1, E2, E3, E4, E5, E6, E7, E8, E9> {
    ghost count = { 9 };

    ghost parts_of = { λ v human. E1.data_of v.first.now human ∷ E2.data_of v.second.now human ∷ E3.data_of v.third.now human
        ∷ E4.data_of v.fourth.now human ∷ E5.data_of v.fifth.now human ∷ E6.data_of v.sixth.now human ∷ E7.data_of v.seventh.now human
        ∷ E8.data_of v.eighth.now human ∷ E9.data_of v.ninth.now human ∷ [] };

    ghost are_values = { λ v. E1.is_value v.first.now × E2.is_value v.second.now × E3.is_value v.third.now × E4.is_value v.fourth.now
        × E5.is_value v.fifth.now × E6.is_value v.sixth.now × E7.is_value v.seventh.now × E8.is_value v.eighth.now × E9.is_value v.ninth.now };

    ghost refusals = { λ v. E1.refuses v.first.now ∷ E2.refuses v.second.now ∷ E3.refuses v.third.now ∷ E4.refuses v.fourth.now ∷ E5.refuses v.fifth.now
        ∷ E6.refuses v.sixth.now ∷ E7.refuses v.seventh.now ∷ E8.refuses v.eighth.now ∷ E9.refuses v.ninth.now ∷ [] };

    ghost takes_memory = { λ s. one_of (E1.takes_memory s
        ∷ (E2.takes_memory s ∷ (E3.takes_memory s ∷ (E4.takes_memory s
        ∷ (E5.takes_memory s ∷ (E6.takes_memory s ∷ (E7.takes_memory s ∷ (E8.takes_memory s ∷ (E9.takes_memory s ∷ []))))))))) };

    ghost pieces = { λ v s.
        value_of s (E1.data_of v.first.now s.human) (E1.marks v.first.now s) ∷
        value_of s (E2.data_of v.second.now s.human) (E2.marks v.second.now s) ∷
        value_of s (E3.data_of v.third.now s.human) (E3.marks v.third.now s) ∷
        value_of s (E4.data_of v.fourth.now s.human) (E4.marks v.fourth.now s) ∷
        value_of s (E5.data_of v.fifth.now s.human) (E5.marks v.fifth.now s) ∷
        value_of s (E6.data_of v.sixth.now s.human) (E6.marks v.sixth.now s) ∷
        value_of s (E7.data_of v.seventh.now s.human) (E7.marks v.seventh.now s) ∷
        value_of s (E8.data_of v.eighth.now s.human) (E8.marks v.eighth.now s) ∷
        value_of s (E9.data_of v.ninth.now s.human) (E9.marks v.ninth.now s) ∷ [] };

    ghost counted = { λ v human. refl };

    #[inline(always)]
    fn len(&self) -> usize {
        9
    }

    #[inline(always)]
    fn write<W: Sink, C: SerializerConfig>(
        &self,
        se: &mut Serializer<W, C>,
    ) -> Result<(), rmp_encode::Error> {
        let front = rmp_encode::Eight {
            first: self.first,
            second: self.second,
            third: self.third,
            fourth: self.fourth,
            fifth: self.fifth,
            sixth: self.sixth,
            seventh: self.seventh,
            eighth: self.eighth,
        };
        let back = rmp_encode::One { first: self.ninth };
        front.write(se)?;
        back.write(se)
    }

    #[inline(always)]
    fn write_fields<W: Sink, C: SerializerConfig>(
        &self,
        names: &[&'static str],
        se: &mut Serializer<W, C>,
    ) -> Result<(), rmp_encode::Error> {
        let front = rmp_encode::Eight {
            first: self.first,
            second: self.second,
            third: self.third,
            fourth: self.fourth,
            fifth: self.fifth,
            sixth: self.sixth,
            seventh: self.seventh,
            eighth: self.eighth,
        };
        let back = rmp_encode::One { first: self.ninth };
        front.write_fields(&names[..8], se)?;
        back.write_fields(&names[8..], se)
    }
}

// 16 values, the first 8 of which are written before the others.
#[derive(Drop)]
struct SixteenParts<'r, E1, E2, E3, E4, E5, E6, E7, E8, E9, E10, E11, E12, E13, E14, E15, E16> {
    first: &'r E1,
    second: &'r E2,
    third: &'r E3,
    fourth: &'r E4,
    fifth: &'r E5,
    sixth: &'r E6,
    seventh: &'r E7,
    eighth: &'r E8,
    ninth: &'r E9,
    tenth: &'r E10,
    eleventh: &'r E11,
    twelfth: &'r E12,
    thirteenth: &'r E13,
    fourteenth: &'r E14,
    fifteenth: &'r E15,
    sixteenth: &'r E16,
}

impl<
    'r,
    E1: Serialize,
    E2: Serialize,
    E3: Serialize,
    E4: Serialize,
    E5: Serialize,
    E6: Serialize,
    E7: Serialize,
    E8: Serialize,
    E9: Serialize,
    E10: Serialize,
    E11: Serialize,
    E12: Serialize,
    E13: Serialize,
    E14: Serialize,
    E15: Serialize,
    E16: Serialize,
> Elements
    for SixteenParts<'r, E1, E2, E3, E4, E5, E6, E7, E8, E9, E10, E11, E12, E13, E14, E15, E16> {
    ghost count = { 16 };

    ghost parts_of = { λ v human. E1.data_of v.first.now human ∷ E2.data_of v.second.now human ∷ E3.data_of v.third.now human
        ∷ E4.data_of v.fourth.now human ∷ E5.data_of v.fifth.now human ∷ E6.data_of v.sixth.now human ∷ E7.data_of v.seventh.now human
        ∷ E8.data_of v.eighth.now human ∷ E9.data_of v.ninth.now human ∷ E10.data_of v.tenth.now human ∷ E11.data_of v.eleventh.now human
        ∷ E12.data_of v.twelfth.now human ∷ E13.data_of v.thirteenth.now human ∷ E14.data_of v.fourteenth.now human ∷ E15.data_of v.fifteenth.now human
        ∷ E16.data_of v.sixteenth.now human ∷ [] };

    ghost are_values = { λ v. E1.is_value v.first.now × E2.is_value v.second.now × E3.is_value v.third.now × E4.is_value v.fourth.now
        × E5.is_value v.fifth.now × E6.is_value v.sixth.now × E7.is_value v.seventh.now × E8.is_value v.eighth.now × E9.is_value v.ninth.now
        × E10.is_value v.tenth.now × E11.is_value v.eleventh.now × E12.is_value v.twelfth.now × E13.is_value v.thirteenth.now
        × E14.is_value v.fourteenth.now × E15.is_value v.fifteenth.now × E16.is_value v.sixteenth.now };

    ghost refusals = { λ v. E1.refuses v.first.now ∷ E2.refuses v.second.now ∷ E3.refuses v.third.now ∷ E4.refuses v.fourth.now ∷ E5.refuses v.fifth.now
        ∷ E6.refuses v.sixth.now ∷ E7.refuses v.seventh.now ∷ E8.refuses v.eighth.now ∷ E9.refuses v.ninth.now ∷ E10.refuses v.tenth.now
        ∷ E11.refuses v.eleventh.now ∷ E12.refuses v.twelfth.now ∷ E13.refuses v.thirteenth.now ∷ E14.refuses v.fourteenth.now ∷ E15.refuses v.fifteenth.now
        ∷ E16.refuses v.sixteenth.now ∷ [] };

    ghost takes_memory = { λ s. one_of (E1.takes_memory s
        ∷ (E2.takes_memory s ∷ (E3.takes_memory s ∷ (E4.takes_memory s
        ∷ (E5.takes_memory s ∷ (E6.takes_memory s ∷ (E7.takes_memory s
        ∷ (E8.takes_memory s ∷ (E9.takes_memory s ∷ (E10.takes_memory s
        ∷ (E11.takes_memory s ∷ (E12.takes_memory s ∷ (E13.takes_memory s
        ∷ (E14.takes_memory s ∷ (E15.takes_memory s ∷ (E16.takes_memory s ∷ [])))))))))))))))) };

    ghost pieces = { λ v s.
        value_of s (E1.data_of v.first.now s.human) (E1.marks v.first.now s) ∷
        value_of s (E2.data_of v.second.now s.human) (E2.marks v.second.now s) ∷
        value_of s (E3.data_of v.third.now s.human) (E3.marks v.third.now s) ∷
        value_of s (E4.data_of v.fourth.now s.human) (E4.marks v.fourth.now s) ∷
        value_of s (E5.data_of v.fifth.now s.human) (E5.marks v.fifth.now s) ∷
        value_of s (E6.data_of v.sixth.now s.human) (E6.marks v.sixth.now s) ∷
        value_of s (E7.data_of v.seventh.now s.human) (E7.marks v.seventh.now s) ∷
        value_of s (E8.data_of v.eighth.now s.human) (E8.marks v.eighth.now s) ∷
        value_of s (E9.data_of v.ninth.now s.human) (E9.marks v.ninth.now s) ∷
        value_of s (E10.data_of v.tenth.now s.human) (E10.marks v.tenth.now s) ∷
        value_of s (E11.data_of v.eleventh.now s.human) (E11.marks v.eleventh.now s) ∷
        value_of s (E12.data_of v.twelfth.now s.human) (E12.marks v.twelfth.now s) ∷
        value_of s (E13.data_of v.thirteenth.now s.human) (E13.marks v.thirteenth.now s) ∷
        value_of s (E14.data_of v.fourteenth.now s.human) (E14.marks v.fourteenth.now s) ∷
        value_of s (E15.data_of v.fifteenth.now s.human) (E15.marks v.fifteenth.now s) ∷
        value_of s (E16.data_of v.sixteenth.now s.human) (E16.marks v.sixteenth.now s) ∷ [] };

    ghost counted = { λ v human. refl };

    #[inline(always)]
    fn len(&self) -> usize {
        16
    }

    #[inline(always)]
    fn write<W: Sink, C: SerializerConfig>(
        &self,
        se: &mut Serializer<W, C>,
    ) -> Result<(), rmp_encode::Error> {
        let front = rmp_encode::Eight {
            first: self.first,
            second: self.second,
            third: self.third,
            fourth: self.fourth,
            fifth: self.fifth,
            sixth: self.sixth,
            seventh: self.seventh,
            eighth: self.eighth,
        };
        let back = rmp_encode::Eight {
            first: self.ninth,
            second: self.tenth,
            third: self.eleventh,
            fourth: self.twelfth,
            fifth: self.thirteenth,
            sixth: self.fourteenth,
            seventh: self.fifteenth,
            eighth: self.sixteenth,
        };
        front.write(se)?;
        back.write(se)
    }

    #[inline(always)]
    fn write_fields<W: Sink, C: SerializerConfig>(
        &self,
        names: &[&'static str],
        se: &mut Serializer<W, C>,
    ) -> Result<(), rmp_encode::Error> {
        let front = rmp_encode::Eight {
            first: self.first,
            second: self.second,
            third: self.third,
            fourth: self.fourth,
            fifth: self.fifth,
            sixth: self.sixth,
            seventh: self.seventh,
            eighth: self.eighth,
        };
        let back = rmp_encode::Eight {
            first: self.ninth,
            second: self.tenth,
            third: self.eleventh,
            fourth: self.twelfth,
            fifth: self.thirteenth,
            sixth: self.fourteenth,
            seventh: self.fifteenth,
            eighth: self.sixteenth,
        };
        front.write_fields(&names[..8], se)?;
        back.write_fields(&names[8..], se)
    }
}
