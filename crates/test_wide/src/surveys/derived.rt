//! How the types of surveys.rt are written and read. Written by tools/derive.py.
//!
//! Sum of Chart: 835382a0.
//! Sum of Survey: bb327ad6.
ghost use Rattle.rmp_decode.specs.Arrays.{Exactly};
ghost use Rattle.rmp_decode.specs.FieldRefusing.{RefusesFields};
ghost use Rattle.rmp_decode.specs.Fields.{OfFields, Field, Absent, NoField};
ghost use Rattle.rmp_decode.specs.Refusing.{part_of};
ghost use Rattle.rmp_decode.specs.Rows.{ReadsEach};
ghost use Rattle.rmp_encode.specs.Markers.{value_of};
ghost use Rattle.rmp_encode.specs.Refusals.{OfParts};
ghost use Rattle.rmp_encode.specs.Sizes.{one_of};
ghost use Rattle.rmp_encode.specs.Trees.{structure_of, tuple_of};
ghost use Rattle.rmp_ends.specs.BufferEnds.{buffer_inside};
ghost use Rattle.rmp_ends.specs.FieldEnds.{fields_inside};
ghost use Rattle.rmp_ends.specs.LeafEnds.{kind_inside, number_inside, nil_inside, signed128_inside, unsigned128_inside, char_inside, string_inside};
ghost use Rattle.rmp_ends.specs.MapEnds.{map_inside};
ghost use Rattle.rmp_ends.specs.RowEnds.{array_inside, each_inside, option_inside, tuple_inside};
ghost use Rattle.rmp_round_trip.specs.AlikeData.{array_alike, bytes_alike, float64_alike, mapping_alike, option_alike};
ghost use Rattle.rmp_round_trip.specs.AlikeData.{sequence_alike, slice_alike, text_alike, unit_alike};
ghost use Rattle.rmp_round_trip.specs.AlikeOrder.{tied};
ghost use Rattle.rmp_round_trip.specs.LeafRounds.{byte_row, unsigned_row_16, unsigned_row_32, unsigned_row_64, signed_row_8, signed_row_16, signed_row_32};
ghost use Rattle.rmp_round_trip.specs.LeafRounds.{pos_other, whole_other, truth_other, char_other, text_other};
ghost use Rattle.rmp_round_trip.specs.LeafRounds.{signed_row_64, truth_row, unit_row, float64_row, char_row, string_row, buffer_row};
ghost use Rattle.rmp_round_trip.specs.MapRounds.{mapping_some, map_row, pairs_row, set_row};
ghost use Rattle.rmp_round_trip.specs.OnlyFields.{field_only, fields_both, last_field};
ghost use Rattle.rmp_round_trip.specs.OnlyLeaves.{unit_only, truth_only, byte_only, unsigned_only, signed_only, float64_only};
ghost use Rattle.rmp_round_trip.specs.OnlyLeaves.{unsigned128_only, signed128_only, char_only, string_only, buffer_only};
ghost use Rattle.rmp_round_trip.specs.OnlyMaps.{entries_only, set_only};
ghost use Rattle.rmp_round_trip.specs.OnlyRows.{array_only, item_only, last_only, list_only, lowers_then, option_only, row_both};
ghost use Rattle.rmp_round_trip.specs.RoundTrip.{Only};
ghost use Rattle.rmp_round_trip.specs.Rounds.{each_some, each_row, rows_map, option_some, option_row, slice_some, slice_row};
ghost use Rattle.rmp_round_trip.specs.Rounds.{tuple_some, tuple_row, sequence_some, sequence_row, rows_none, rows_cons};
ghost use Rattle.rmp_round_trip.specs.StructRounds.{tuple_all, structure_all, structure_row, structure_other, fields_none, fields_cons};
ghost use Rattle.rmp_round_trip.specs.WideRounds.{unsigned128_row, signed128_row};
ghost use Rattle.rmp_wire.specs.Types.{buffer_bytes};
ghost use Rattle.std.proofs.Common.{refl, rules};
ghost use Rattle.std.proofs.lemmas.Cmp.{on_total, nat_list_cmp_total};
ghost use Rattle.std.specs.Cmp.Lexicographic.{slice_cmp};
ghost use Rattle.std.specs.Cmp.Rules.{comparing};
ghost use Rattle.std.specs.Option.{is_none};
ghost use Rattle.std.specs.Ordering.{nat_cmp};
ghost use Rattle.std.specs.Prelude.{◌∷◌, [], None, codes, string_bytes, pos, negsuc};

use super::{BTreeMap, BTreeSet, ByteBuf, Chart, Course, F64Bits, Spot, Survey};
use rmp_decode::{Deserialize, Deserializer, ReadFields, SixteenThen};
use rmp_encode::{Elements, Serialize, Serializer};
use rmp_ends::EndsInside;
use rmp_round_trip::{NeverNil, RoundTrip};
use rmp_wire::config::SerializerConfig;
use rmp_wire::{ReadSlice, Sink};

impl Serialize for Chart {
    ghost data_of = { λ v human. structure_of ((codes "number", ⟦<u64 as Serialize>⟧.data_of v.number human)
        ∷ ((codes "name", ⟦<String as Serialize>⟧.data_of v.name human)
        ∷ ((codes "born", ⟦<u16 as Serialize>⟧.data_of v.born human)
        ∷ ((codes "weight", ⟦<u8 as Serialize>⟧.data_of v.weight human)
        ∷ ((codes "height", ⟦<i8 as Serialize>⟧.data_of v.height human)
        ∷ ((codes "fever", ⟦<i16 as Serialize>⟧.data_of v.fever human)
        ∷ ((codes "offset", ⟦<i32 as Serialize>⟧.data_of v.offset human)
        ∷ ((codes "balance", ⟦<i64 as Serialize>⟧.data_of v.balance human)
        ∷ ((codes "neutered", ⟦<bool as Serialize>⟧.data_of v.neutered human)
        ∷ ((codes "chip", ⟦<Option<u64> as Serialize>⟧.data_of v.chip human)
        ∷ ((codes "owner", ⟦<Option<String> as Serialize>⟧.data_of v.owner human)
        ∷ ((codes "shots", ⟦<Vec<u16> as Serialize>⟧.data_of v.shots human)
        ∷ ((codes "notes", ⟦<Vec<String> as Serialize>⟧.data_of v.notes human)
        ∷ ((codes "heart", ⟦<u32 as Serialize>⟧.data_of v.heart human)
        ∷ ((codes "lungs", ⟦<u32 as Serialize>⟧.data_of v.lungs human) ∷ ((codes "last", ⟦<String as Serialize>⟧.data_of v.last human) ∷ [])))))))))))))))) };

    ghost is_value = { λ v. ⟦<u64 as Serialize>⟧.is_value v.number × ⟦<String as Serialize>⟧.is_value v.name × ⟦<u16 as Serialize>⟧.is_value v.born
        × ⟦<u8 as Serialize>⟧.is_value v.weight × ⟦<i8 as Serialize>⟧.is_value v.height × ⟦<i16 as Serialize>⟧.is_value v.fever
        × ⟦<i32 as Serialize>⟧.is_value v.offset × ⟦<i64 as Serialize>⟧.is_value v.balance × ⟦<bool as Serialize>⟧.is_value v.neutered
        × ⟦<Option<u64> as Serialize>⟧.is_value v.chip × ⟦<Option<String> as Serialize>⟧.is_value v.owner × ⟦<Vec<u16> as Serialize>⟧.is_value v.shots
        × ⟦<Vec<String> as Serialize>⟧.is_value v.notes × ⟦<u32 as Serialize>⟧.is_value v.heart × ⟦<u32 as Serialize>⟧.is_value v.lungs
        × ⟦<String as Serialize>⟧.is_value v.last };

    ghost takes_memory = { λ s. one_of (⟦<u64 as Serialize>⟧.takes_memory s
        ∷ (⟦<String as Serialize>⟧.takes_memory s ∷ (⟦<u16 as Serialize>⟧.takes_memory s
        ∷ (⟦<u8 as Serialize>⟧.takes_memory s ∷ (⟦<i8 as Serialize>⟧.takes_memory s
        ∷ (⟦<i16 as Serialize>⟧.takes_memory s ∷ (⟦<i32 as Serialize>⟧.takes_memory s
        ∷ (⟦<i64 as Serialize>⟧.takes_memory s ∷ (⟦<bool as Serialize>⟧.takes_memory s
        ∷ (⟦<Option<u64> as Serialize>⟧.takes_memory s ∷ (⟦<Option<String> as Serialize>⟧.takes_memory s
        ∷ (⟦<Vec<u16> as Serialize>⟧.takes_memory s ∷ (⟦<Vec<String> as Serialize>⟧.takes_memory s
        ∷ (⟦<u32 as Serialize>⟧.takes_memory s ∷ (⟦<u32 as Serialize>⟧.takes_memory s ∷ (⟦<String as Serialize>⟧.takes_memory s ∷ [])))))))))))))))) };

    ghost refuses = { λ v. OfParts ⊥ (⟦<u64 as Serialize>⟧.refuses v.number
        ∷ (⟦<String as Serialize>⟧.refuses v.name ∷ (⟦<u16 as Serialize>⟧.refuses v.born
        ∷ (⟦<u8 as Serialize>⟧.refuses v.weight ∷ (⟦<i8 as Serialize>⟧.refuses v.height
        ∷ (⟦<i16 as Serialize>⟧.refuses v.fever ∷ (⟦<i32 as Serialize>⟧.refuses v.offset
        ∷ (⟦<i64 as Serialize>⟧.refuses v.balance ∷ (⟦<bool as Serialize>⟧.refuses v.neutered
        ∷ (⟦<Option<u64> as Serialize>⟧.refuses v.chip ∷ (⟦<Option<String> as Serialize>⟧.refuses v.owner
        ∷ (⟦<Vec<u16> as Serialize>⟧.refuses v.shots ∷ (⟦<Vec<String> as Serialize>⟧.refuses v.notes
        ∷ (⟦<u32 as Serialize>⟧.refuses v.heart ∷ (⟦<u32 as Serialize>⟧.refuses v.lungs ∷ (⟦<String as Serialize>⟧.refuses v.last ∷ [])))))))))))))))) };

    fn serialize<W: Sink, C: SerializerConfig>(
        &self,
        se: &mut Serializer<W, C>,
    ) -> Result<(), rmp_encode::Error> {
        let parts = SixteenParts {
            first: &self.number,
            second: &self.name,
            third: &self.born,
            fourth: &self.weight,
            fifth: &self.height,
            sixth: &self.fever,
            seventh: &self.offset,
            eighth: &self.balance,
            ninth: &self.neutered,
            tenth: &self.chip,
            eleventh: &self.owner,
            twelfth: &self.shots,
            thirteenth: &self.notes,
            fourteenth: &self.heart,
            fifteenth: &self.lungs,
            sixteenth: &self.last,
        };
        se.serialize_fields(
            "Chart",
            &[
                "number", "name", "born", "weight", "height", "fever", "offset", "balance",
                "neutered", "chip", "owner", "shots", "notes", "heart", "lungs", "last",
            ],
            &parts,
        )
    }

    #[tactic(auto, using(rmp_encode::proofs::Fields::structure_no_byte))]
    fn as_u8(&self, _human: bool) -> Option<u8> {
        None
    }
}

impl<'de, R: ReadSlice<'de>> Deserialize<'de, R> for Chart {
    ghost reads = { λ human lends m v. OfFields (codes "number"
        ∷ (codes "name" ∷ (codes "born" ∷ (codes "weight" ∷
        (codes "height" ∷ (codes "fever" ∷ (codes "offset"
        ∷ (codes "balance" ∷ (codes "neutered" ∷ (codes "chip"
        ∷ (codes "owner" ∷ (codes "shots" ∷ (codes "notes" ∷ (codes "heart" ∷ (codes "lungs" ∷ (codes "last" ∷ []))))))))))))))))
        (Field (λ j. ⟦<u64 as Deserialize<'de, R>>⟧.reads human lends j v.number) (Absent ⟦<u64 as Deserialize<'de, R>>⟧.absent v.number)
        (Field (λ j. ⟦<String as Deserialize<'de, R>>⟧.reads human lends j v.name) (Absent ⟦<String as Deserialize<'de, R>>⟧.absent v.name)
        (Field (λ j. ⟦<u16 as Deserialize<'de, R>>⟧.reads human lends j v.born) (Absent ⟦<u16 as Deserialize<'de, R>>⟧.absent v.born)
        (Field (λ j. ⟦<u8 as Deserialize<'de, R>>⟧.reads human lends j v.weight) (Absent ⟦<u8 as Deserialize<'de, R>>⟧.absent v.weight)
        (Field (λ j. ⟦<i8 as Deserialize<'de, R>>⟧.reads human lends j v.height) (Absent ⟦<i8 as Deserialize<'de, R>>⟧.absent v.height)
        (Field (λ j. ⟦<i16 as Deserialize<'de, R>>⟧.reads human lends j v.fever) (Absent ⟦<i16 as Deserialize<'de, R>>⟧.absent v.fever)
        (Field (λ j. ⟦<i32 as Deserialize<'de, R>>⟧.reads human lends j v.offset) (Absent ⟦<i32 as Deserialize<'de, R>>⟧.absent v.offset)
        (Field (λ j. ⟦<i64 as Deserialize<'de, R>>⟧.reads human lends j v.balance) (Absent ⟦<i64 as Deserialize<'de, R>>⟧.absent v.balance)
        (Field (λ j. ⟦<bool as Deserialize<'de, R>>⟧.reads human lends j v.neutered) (Absent ⟦<bool as Deserialize<'de, R>>⟧.absent v.neutered)
        (Field (λ j. ⟦<Option<u64> as Deserialize<'de, R>>⟧.reads human lends j v.chip) (Absent ⟦<Option<u64> as Deserialize<'de, R>>⟧.absent v.chip)
        (Field (λ j. ⟦<Option<String> as Deserialize<'de, R>>⟧.reads human lends j v.owner)
        (Absent ⟦<Option<String> as Deserialize<'de, R>>⟧.absent v.owner)
        (Field (λ j. ⟦<Vec<u16> as Deserialize<'de, R>>⟧.reads human lends j v.shots) (Absent ⟦<Vec<u16> as Deserialize<'de, R>>⟧.absent v.shots)
        (Field (λ j. ⟦<Vec<String> as Deserialize<'de, R>>⟧.reads human lends j v.notes) (Absent ⟦<Vec<String> as Deserialize<'de, R>>⟧.absent v.notes)
        (Field (λ j. ⟦<u32 as Deserialize<'de, R>>⟧.reads human lends j v.heart) (Absent ⟦<u32 as Deserialize<'de, R>>⟧.absent v.heart)
        (Field (λ j. ⟦<u32 as Deserialize<'de, R>>⟧.reads human lends j v.lungs) (Absent ⟦<u32 as Deserialize<'de, R>>⟧.absent v.lungs)
        (Field (λ j. ⟦<String as Deserialize<'de, R>>⟧.reads human lends j v.last) (Absent ⟦<String as Deserialize<'de, R>>⟧.absent v.last)
        NoField)))))))))))))))) m };

    ghost absent = { None };

    ghost refuses = { RefusesFields (codes "number" ∷ (codes "name"
        ∷ (codes "born" ∷ (codes "weight" ∷ (codes "height"
        ∷ (codes "fever" ∷ (codes "offset" ∷ (codes "balance"
        ∷ (codes "neutered" ∷ (codes "chip" ∷ (codes "owner"
        ∷ (codes "shots" ∷ (codes "notes" ∷ (codes "heart" ∷ (codes "lungs" ∷ (codes "last" ∷ []))))))))))))))))
        ⟦<(u64, String, u16, u8, (i8, i16, i32, i64, (bool, Option<u64>, Option<String>, Vec<u16>, (Vec<String>, u32, u32, String, ())))) as ReadFields<'de, R>>⟧.needed
        ⟦<(u64, String, u16, u8, (i8, i16, i32, i64, (bool, Option<u64>, Option<String>, Vec<u16>, (Vec<String>, u32, u32, String, ())))) as ReadFields<'de, R>>⟧.parts };

    fn deserialize<C: SerializerConfig>(
        de: &mut Deserializer<R, C>,
    ) -> Result<Chart, rmp_decode::Error> {
        let read: Result<
            (
                u64,
                String,
                u16,
                u8,
                (
                    i8,
                    i16,
                    i32,
                    i64,
                    (
                        bool,
                        Option<u64>,
                        Option<String>,
                        Vec<u16>,
                        (Vec<String>, u32, u32, String, ()),
                    ),
                ),
            ),
            rmp_decode::Error,
        > = de.deserialize_fields(&[
            "number", "name", "born", "weight", "height", "fever", "offset", "balance", "neutered",
            "chip", "owner", "shots", "notes", "heart", "lungs", "last",
        ]);
        match read {
            Ok(parts) => {
                let (
                    number,
                    name,
                    born,
                    weight,
                    (
                        height,
                        fever,
                        offset,
                        balance,
                        (neutered, chip, owner, shots, (notes, heart, lungs, last, ())),
                    ),
                ) = parts;
                return Ok(Chart {
                    number,
                    name,
                    born,
                    weight,
                    height,
                    fever,
                    offset,
                    balance,
                    neutered,
                    chip,
                    owner,
                    shots,
                    notes,
                    heart,
                    lungs,
                    last,
                });
            }
            Err(e) => return Err(e),
        }
    }

    fn missing() -> Option<Chart> {
        None
    }
}

impl<'de, R: ReadSlice<'de>> RoundTrip<'de, R> for Chart {
    ghost has_data = { λ human v. structure_all ((codes "number", ⟦<u64 as Serialize>⟧.data_of v.number human)
        ∷ ((codes "name", ⟦<String as Serialize>⟧.data_of v.name human)
        ∷ ((codes "born", ⟦<u16 as Serialize>⟧.data_of v.born human)
        ∷ ((codes "weight", ⟦<u8 as Serialize>⟧.data_of v.weight human)
        ∷ ((codes "height", ⟦<i8 as Serialize>⟧.data_of v.height human)
        ∷ ((codes "fever", ⟦<i16 as Serialize>⟧.data_of v.fever human)
        ∷ ((codes "offset", ⟦<i32 as Serialize>⟧.data_of v.offset human)
        ∷ ((codes "balance", ⟦<i64 as Serialize>⟧.data_of v.balance human)
        ∷ ((codes "neutered", ⟦<bool as Serialize>⟧.data_of v.neutered human)
        ∷ ((codes "chip", ⟦<Option<u64> as Serialize>⟧.data_of v.chip human)
        ∷ ((codes "owner", ⟦<Option<String> as Serialize>⟧.data_of v.owner human)
        ∷ ((codes "shots", ⟦<Vec<u16> as Serialize>⟧.data_of v.shots human)
        ∷ ((codes "notes", ⟦<Vec<String> as Serialize>⟧.data_of v.notes human)
        ∷ ((codes "heart", ⟦<u32 as Serialize>⟧.data_of v.heart human)
        ∷ ((codes "lungs", ⟦<u32 as Serialize>⟧.data_of v.lungs human) ∷ ((codes "last", ⟦<String as Serialize>⟧.data_of v.last human) ∷ [])))))))))))))))) (
          refl,
          (
            refl,
            (
              refl,
              (
                refl,
                (
                  refl,
                  (
                    refl,
                    (
                      refl,
                      (
                        refl,
                        (
                          refl,
                          (
                            (option_some (λ x. ⟦<u64 as Serialize>⟧.data_of x human) (λ x1. refl) v.chip),
                            (
                              (option_some (λ x. ⟦<String as Serialize>⟧.data_of x human) (λ x2. refl) v.owner),
                              (
                                (slice_some _ (each_some (λ x. ⟦<u16 as Serialize>⟧.data_of x human) (λ x3. refl) v.shots.items)),
                                ((slice_some _ (each_some (λ x. ⟦<String as Serialize>⟧.data_of x human) (λ x4. refl) v.notes.items)), (refl, (refl, (refl, tt)))),
                              ),
                            ),
                          ),
                        ),
                      ),
                    ),
                  ),
                ),
              ),
            ),
          ),
        ) };

    ghost round = { λ lent s v fits. structure_row s (codes "number"
        ∷ (codes "name" ∷ (codes "born" ∷ (codes "weight" ∷
        (codes "height" ∷ (codes "fever" ∷ (codes "offset"
        ∷ (codes "balance" ∷ (codes "neutered" ∷ (codes "chip"
        ∷ (codes "owner" ∷ (codes "shots" ∷ (codes "notes" ∷ (codes "heart" ∷ (codes "lungs" ∷ (codes "last" ∷ [])))))))))))))))) _ _ refl
        (fields_cons s (codes "number") _ _ _ (λ j. ⟦<u64 as Deserialize<'de, R>>⟧.reads s.human R.lends j v.number)
        (Absent ⟦<u64 as Deserialize<'de, R>>⟧.absent v.number) _ (unsigned_row_64 s v.number fits.0)
        (fields_cons s (codes "name") _ _ _ (λ j. ⟦<String as Deserialize<'de, R>>⟧.reads s.human R.lends j v.name)
        (Absent ⟦<String as Deserialize<'de, R>>⟧.absent v.name) _ (string_row s (string_bytes v.name))
        (fields_cons s (codes "born") _ _ _ (λ j. ⟦<u16 as Deserialize<'de, R>>⟧.reads s.human R.lends j v.born)
        (Absent ⟦<u16 as Deserialize<'de, R>>⟧.absent v.born) _ (unsigned_row_16 s v.born fits.2)
        (fields_cons s (codes "weight") _ _ _ (λ j. ⟦<u8 as Deserialize<'de, R>>⟧.reads s.human R.lends j v.weight)
        (Absent ⟦<u8 as Deserialize<'de, R>>⟧.absent v.weight) _ (byte_row s v.weight fits.3)
        (fields_cons s (codes "height") _ _ _ (λ j. ⟦<i8 as Deserialize<'de, R>>⟧.reads s.human R.lends j v.height)
        (Absent ⟦<i8 as Deserialize<'de, R>>⟧.absent v.height) _ (signed_row_8 s v.height fits.4)
        (fields_cons s (codes "fever") _ _ _ (λ j. ⟦<i16 as Deserialize<'de, R>>⟧.reads s.human R.lends j v.fever)
        (Absent ⟦<i16 as Deserialize<'de, R>>⟧.absent v.fever) _ (signed_row_16 s v.fever fits.5)
        (fields_cons s (codes "offset") _ _ _ (λ j. ⟦<i32 as Deserialize<'de, R>>⟧.reads s.human R.lends j v.offset)
        (Absent ⟦<i32 as Deserialize<'de, R>>⟧.absent v.offset) _ (signed_row_32 s v.offset fits.6)
        (fields_cons s (codes "balance") _ _ _ (λ j. ⟦<i64 as Deserialize<'de, R>>⟧.reads s.human R.lends j v.balance)
        (Absent ⟦<i64 as Deserialize<'de, R>>⟧.absent v.balance) _ (signed_row_64 s v.balance fits.7)
        (fields_cons s (codes "neutered") _ _ _ (λ j. ⟦<bool as Deserialize<'de, R>>⟧.reads s.human R.lends j v.neutered)
        (Absent ⟦<bool as Deserialize<'de, R>>⟧.absent v.neutered) _ (truth_row s v.neutered)
        (fields_cons s (codes "chip") _ _ _ (λ j. ⟦<Option<u64> as Deserialize<'de, R>>⟧.reads s.human R.lends j v.chip)
        (Absent ⟦<Option<u64> as Deserialize<'de, R>>⟧.absent v.chip) _
        (option_row s (λ x. ⟦<u64 as Serialize>⟧.data_of x s.human) ⟦<u64 as Serialize>⟧.is_value (⟦<u64 as Deserialize<'de, R>>⟧.reads s.human R.lends)
        (λ x6. pos_other s x6) (λ x5 h5. (unsigned_row_64 s x5 h5)) v.chip fits.9)
        (fields_cons s (codes "owner") _ _ _ (λ j. ⟦<Option<String> as Deserialize<'de, R>>⟧.reads s.human R.lends j v.owner)
        (Absent ⟦<Option<String> as Deserialize<'de, R>>⟧.absent v.owner) _
        (option_row s (λ x. ⟦<String as Serialize>⟧.data_of x s.human) ⟦<String as Serialize>⟧.is_value
        (⟦<String as Deserialize<'de, R>>⟧.reads s.human R.lends) (λ x8. text_other s (string_bytes x8)) (λ x7 h7. (string_row s (string_bytes x7))) v.owner
        fits.10) (fields_cons s (codes "shots") _ _ _ (λ j. ⟦<Vec<u16> as Deserialize<'de, R>>⟧.reads s.human R.lends j v.shots)
        (Absent ⟦<Vec<u16> as Deserialize<'de, R>>⟧.absent v.shots) _
        (slice_row s _ (λ ms. ReadsEach (⟦<u16 as Deserialize<'de, R>>⟧.reads s.human R.lends) ms v.shots.items)
        (each_row s (λ x. ⟦<u16 as Serialize>⟧.data_of x s.human) ⟦<u16 as Serialize>⟧.is_value (⟦<u16 as Deserialize<'de, R>>⟧.reads s.human R.lends)
        (λ x9 h9. (unsigned_row_16 s x9 h9)) v.shots.items fits.11))
        (fields_cons s (codes "notes") _ _ _ (λ j. ⟦<Vec<String> as Deserialize<'de, R>>⟧.reads s.human R.lends j v.notes)
        (Absent ⟦<Vec<String> as Deserialize<'de, R>>⟧.absent v.notes) _
        (slice_row s _ (λ ms. ReadsEach (⟦<String as Deserialize<'de, R>>⟧.reads s.human R.lends) ms v.notes.items)
        (each_row s (λ x. ⟦<String as Serialize>⟧.data_of x s.human) ⟦<String as Serialize>⟧.is_value
        (⟦<String as Deserialize<'de, R>>⟧.reads s.human R.lends) (λ x10 h10. (string_row s (string_bytes x10))) v.notes.items fits.12))
        (fields_cons s (codes "heart") _ _ _ (λ j. ⟦<u32 as Deserialize<'de, R>>⟧.reads s.human R.lends j v.heart)
        (Absent ⟦<u32 as Deserialize<'de, R>>⟧.absent v.heart) _ (unsigned_row_32 s v.heart fits.13)
        (fields_cons s (codes "lungs") _ _ _ (λ j. ⟦<u32 as Deserialize<'de, R>>⟧.reads s.human R.lends j v.lungs)
        (Absent ⟦<u32 as Deserialize<'de, R>>⟧.absent v.lungs) _ (unsigned_row_32 s v.lungs fits.14)
        (fields_cons s (codes "last") _ _ _ (λ j. ⟦<String as Deserialize<'de, R>>⟧.reads s.human R.lends j v.last)
        (Absent ⟦<String as Deserialize<'de, R>>⟧.absent v.last) _ (string_row s (string_bytes v.last)) (fields_none s))))))))))))))))) };

    ghost same = { λ v w. ⟦<u64 as RoundTrip<'de, R>>⟧.same v.number w.number × ⟦<String as RoundTrip<'de, R>>⟧.same v.name w.name
        × ⟦<u16 as RoundTrip<'de, R>>⟧.same v.born w.born × ⟦<u8 as RoundTrip<'de, R>>⟧.same v.weight w.weight
        × ⟦<i8 as RoundTrip<'de, R>>⟧.same v.height w.height × ⟦<i16 as RoundTrip<'de, R>>⟧.same v.fever w.fever
        × ⟦<i32 as RoundTrip<'de, R>>⟧.same v.offset w.offset × ⟦<i64 as RoundTrip<'de, R>>⟧.same v.balance w.balance
        × ⟦<bool as RoundTrip<'de, R>>⟧.same v.neutered w.neutered × ⟦<Option<u64> as RoundTrip<'de, R>>⟧.same v.chip w.chip
        × ⟦<Option<String> as RoundTrip<'de, R>>⟧.same v.owner w.owner × ⟦<Vec<u16> as RoundTrip<'de, R>>⟧.same v.shots w.shots
        × ⟦<Vec<String> as RoundTrip<'de, R>>⟧.same v.notes w.notes × ⟦<u32 as RoundTrip<'de, R>>⟧.same v.heart w.heart
        × ⟦<u32 as RoundTrip<'de, R>>⟧.same v.lungs w.lungs × ⟦<String as RoundTrip<'de, R>>⟧.same v.last w.last };

    ghost alike = { λ human v w h i. structure_of ((codes "number", (⟦<u64 as Serialize>⟧.data_of (h.0 i) human))
        ∷ ((codes "name", (text_alike (string_bytes v.name) (string_bytes w.name) h.1 i))
        ∷ ((codes "born", (⟦<u16 as Serialize>⟧.data_of (h.2 i) human))
        ∷ ((codes "weight", (⟦<u8 as Serialize>⟧.data_of (h.3 i) human))
        ∷ ((codes "height", (⟦<i8 as Serialize>⟧.data_of (h.4 i) human))
        ∷ ((codes "fever", (⟦<i16 as Serialize>⟧.data_of (h.5 i) human))
        ∷ ((codes "offset", (⟦<i32 as Serialize>⟧.data_of (h.6 i) human))
        ∷ ((codes "balance", (⟦<i64 as Serialize>⟧.data_of (h.7 i) human))
        ∷ ((codes "neutered", (⟦<bool as Serialize>⟧.data_of (h.8 i) human))
        ∷ ((
          codes "chip",
          (option_alike ⟦<u64 as RoundTrip<'de, R>>⟧.same (λ x. ⟦<u64 as Serialize>⟧.data_of x human)
              (λ x7 yx7 h7 i. (⟦<u64 as Serialize>⟧.data_of (h7 i) human)) v.chip w.chip h.9 i),
        )
        ∷ ((
          codes "owner",
          (option_alike ⟦<String as RoundTrip<'de, R>>⟧.same (λ x. ⟦<String as Serialize>⟧.data_of x human)
              (λ x8 yx8 h8 i. (text_alike (string_bytes x8) (string_bytes yx8) h8 i)) v.owner w.owner h.10 i),
        )
        ∷ ((
          codes "shots",
          (slice_alike ⟦<u16 as RoundTrip<'de, R>>⟧.same (λ x. ⟦<u16 as Serialize>⟧.data_of x human)
              (λ x9 yx9 h9 i. (⟦<u16 as Serialize>⟧.data_of (h9 i) human)) v.shots.items w.shots.items h.11 i),
        )
        ∷ ((
          codes "notes",
          (slice_alike ⟦<String as RoundTrip<'de, R>>⟧.same (λ x. ⟦<String as Serialize>⟧.data_of x human)
              (λ x10 yx10 h10 i. (text_alike (string_bytes x10) (string_bytes yx10) h10 i)) v.notes.items w.notes.items h.12 i),
        )
        ∷ ((codes "heart", (⟦<u32 as Serialize>⟧.data_of (h.13 i) human))
        ∷ ((codes "lungs", (⟦<u32 as Serialize>⟧.data_of (h.14 i) human))
        ∷ ((codes "last", (text_alike (string_bytes v.last) (string_bytes w.last) h.15 i)) ∷ [])))))))))))))))) };

    ghost only = { λ s v fits. lowers_then s _ _ (λ m. (w : _) → (⟦<Chart as Deserialize<'de, R>>⟧.reads s.human R.lends) m w
        → ⟦<u64 as RoundTrip<'de, R>>⟧.same v.number w.number × ⟦<String as RoundTrip<'de, R>>⟧.same v.name w.name
        × ⟦<u16 as RoundTrip<'de, R>>⟧.same v.born w.born × ⟦<u8 as RoundTrip<'de, R>>⟧.same v.weight w.weight
        × ⟦<i8 as RoundTrip<'de, R>>⟧.same v.height w.height × ⟦<i16 as RoundTrip<'de, R>>⟧.same v.fever w.fever
        × ⟦<i32 as RoundTrip<'de, R>>⟧.same v.offset w.offset × ⟦<i64 as RoundTrip<'de, R>>⟧.same v.balance w.balance
        × ⟦<bool as RoundTrip<'de, R>>⟧.same v.neutered w.neutered × ⟦<Option<u64> as RoundTrip<'de, R>>⟧.same v.chip w.chip
        × ⟦<Option<String> as RoundTrip<'de, R>>⟧.same v.owner w.owner × ⟦<Vec<u16> as RoundTrip<'de, R>>⟧.same v.shots w.shots
        × ⟦<Vec<String> as RoundTrip<'de, R>>⟧.same v.notes w.notes × ⟦<u32 as RoundTrip<'de, R>>⟧.same v.heart w.heart
        × ⟦<u32 as RoundTrip<'de, R>>⟧.same v.lungs w.lungs × ⟦<String as RoundTrip<'de, R>>⟧.same v.last w.last)
        (structure_row s (codes "number" ∷ (codes "name" ∷
        (codes "born" ∷ (codes "weight" ∷ (codes "height" ∷
        (codes "fever" ∷ (codes "offset" ∷ (codes "balance"
        ∷ (codes "neutered" ∷ (codes "chip" ∷ (codes "owner"
        ∷ (codes "shots" ∷ (codes "notes" ∷ (codes "heart" ∷ (codes "lungs" ∷ (codes "last" ∷ [])))))))))))))))) _ _ refl
        (fields_cons s (codes "number") _ _ _ (λ j. Only (⟦<u64 as Deserialize<'de, R>>⟧.reads s.human R.lends) ⟦<u64 as RoundTrip<'de, R>>⟧.same j
        v.number) ⊥ _ (unsigned_only s 18446744073709551615 v.number)
        (fields_cons s (codes "name") _ _ _ (λ j. Only (⟦<String as Deserialize<'de, R>>⟧.reads s.human R.lends) ⟦<String as RoundTrip<'de, R>>⟧.same j
        v.name) ⊥ _ (string_only s (λ w. string_bytes w) (string_bytes v.name))
        (fields_cons s (codes "born") _ _ _ (λ j. Only (⟦<u16 as Deserialize<'de, R>>⟧.reads s.human R.lends) ⟦<u16 as RoundTrip<'de, R>>⟧.same j v.born) ⊥
        _ (unsigned_only s 65535 v.born) (fields_cons s (codes "weight") _ _ _
        (λ j. Only (⟦<u8 as Deserialize<'de, R>>⟧.reads s.human R.lends) ⟦<u8 as RoundTrip<'de, R>>⟧.same j v.weight) ⊥ _ (byte_only s v.weight)
        (fields_cons s (codes "height") _ _ _ (λ j. Only (⟦<i8 as Deserialize<'de, R>>⟧.reads s.human R.lends) ⟦<i8 as RoundTrip<'de, R>>⟧.same j v.height)
        ⊥ _ (signed_only s (negsuc 127) (pos 127) v.height)
        (fields_cons s (codes "fever") _ _ _ (λ j. Only (⟦<i16 as Deserialize<'de, R>>⟧.reads s.human R.lends) ⟦<i16 as RoundTrip<'de, R>>⟧.same j v.fever)
        ⊥ _ (signed_only s (negsuc 32767) (pos 32767) v.fever)
        (fields_cons s (codes "offset") _ _ _ (λ j. Only (⟦<i32 as Deserialize<'de, R>>⟧.reads s.human R.lends) ⟦<i32 as RoundTrip<'de, R>>⟧.same j
        v.offset) ⊥ _ (signed_only s (negsuc 2147483647) (pos 2147483647) v.offset)
        (fields_cons s (codes "balance") _ _ _ (λ j. Only (⟦<i64 as Deserialize<'de, R>>⟧.reads s.human R.lends) ⟦<i64 as RoundTrip<'de, R>>⟧.same j
        v.balance) ⊥ _ (signed_only s (negsuc 9223372036854775807) (pos 9223372036854775807) v.balance)
        (fields_cons s (codes "neutered") _ _ _ (λ j. Only (⟦<bool as Deserialize<'de, R>>⟧.reads s.human R.lends) ⟦<bool as RoundTrip<'de, R>>⟧.same j
        v.neutered) ⊥ _ (truth_only s v.neutered) (fields_cons s (codes "chip") _ _ _
        (λ j. Only (⟦<Option<u64> as Deserialize<'de, R>>⟧.reads s.human R.lends) ⟦<Option<u64> as RoundTrip<'de, R>>⟧.same j v.chip) ⊥ _
        (option_only s _ (⟦<u64 as Deserialize<'de, R>>⟧.reads s.human R.lends) ⟦<u64 as RoundTrip<'de, R>>⟧.same v.chip
        (option_row s (λ x. ⟦<u64 as Serialize>⟧.data_of x s.human) ⟦<u64 as Serialize>⟧.is_value
        (Only (⟦<u64 as Deserialize<'de, R>>⟧.reads s.human R.lends) ⟦<u64 as RoundTrip<'de, R>>⟧.same) (λ x2. pos_other s x2)
        (λ x1 h1. (unsigned_only s 18446744073709551615 x1)) v.chip fits.9))
        (fields_cons s (codes "owner") _ _ _ (λ j. Only (⟦<Option<String> as Deserialize<'de, R>>⟧.reads s.human R.lends)
        ⟦<Option<String> as RoundTrip<'de, R>>⟧.same j v.owner) ⊥ _
        (option_only s _ (⟦<String as Deserialize<'de, R>>⟧.reads s.human R.lends) ⟦<String as RoundTrip<'de, R>>⟧.same v.owner
        (option_row s (λ x. ⟦<String as Serialize>⟧.data_of x s.human) ⟦<String as Serialize>⟧.is_value
        (Only (⟦<String as Deserialize<'de, R>>⟧.reads s.human R.lends) ⟦<String as RoundTrip<'de, R>>⟧.same) (λ x4. text_other s (string_bytes x4))
        (λ x3 h3. (string_only s (λ w. string_bytes w) (string_bytes x3))) v.owner fits.10))
        (fields_cons s (codes "shots") _ _ _ (λ j. Only (⟦<Vec<u16> as Deserialize<'de, R>>⟧.reads s.human R.lends) ⟦<Vec<u16> as RoundTrip<'de, R>>⟧.same j
        v.shots) ⊥ _ (list_only s _ (λ w. w.items) (⟦<u16 as Deserialize<'de, R>>⟧.reads s.human R.lends) ⟦<u16 as RoundTrip<'de, R>>⟧.same v.shots.items
        (slice_row s _ (λ ms. ReadsEach (Only (⟦<u16 as Deserialize<'de, R>>⟧.reads s.human R.lends) ⟦<u16 as RoundTrip<'de, R>>⟧.same) ms v.shots.items)
        (each_row s (λ x. ⟦<u16 as Serialize>⟧.data_of x s.human) ⟦<u16 as Serialize>⟧.is_value
        (Only (⟦<u16 as Deserialize<'de, R>>⟧.reads s.human R.lends) ⟦<u16 as RoundTrip<'de, R>>⟧.same) (λ x5 h5. (unsigned_only s 65535 x5)) v.shots.items
        fits.11))) (fields_cons s (codes "notes") _ _ _ (λ j. Only (⟦<Vec<String> as Deserialize<'de, R>>⟧.reads s.human R.lends)
        ⟦<Vec<String> as RoundTrip<'de, R>>⟧.same j v.notes) ⊥ _
        (list_only s _ (λ w. w.items) (⟦<String as Deserialize<'de, R>>⟧.reads s.human R.lends) ⟦<String as RoundTrip<'de, R>>⟧.same v.notes.items
        (slice_row s _ (λ ms. ReadsEach (Only (⟦<String as Deserialize<'de, R>>⟧.reads s.human R.lends) ⟦<String as RoundTrip<'de, R>>⟧.same) ms
        v.notes.items) (each_row s (λ x. ⟦<String as Serialize>⟧.data_of x s.human) ⟦<String as Serialize>⟧.is_value
        (Only (⟦<String as Deserialize<'de, R>>⟧.reads s.human R.lends) ⟦<String as RoundTrip<'de, R>>⟧.same)
        (λ x6 h6. (string_only s (λ w. string_bytes w) (string_bytes x6))) v.notes.items fits.12)))
        (fields_cons s (codes "heart") _ _ _ (λ j. Only (⟦<u32 as Deserialize<'de, R>>⟧.reads s.human R.lends) ⟦<u32 as RoundTrip<'de, R>>⟧.same j v.heart)
        ⊥ _ (unsigned_only s 4294967295 v.heart) (fields_cons s (codes "lungs") _ _ _
        (λ j. Only (⟦<u32 as Deserialize<'de, R>>⟧.reads s.human R.lends) ⟦<u32 as RoundTrip<'de, R>>⟧.same j v.lungs) ⊥ _
        (unsigned_only s 4294967295 v.lungs) (fields_cons s (codes "last") _ _ _
        (λ j. Only (⟦<String as Deserialize<'de, R>>⟧.reads s.human R.lends) ⟦<String as RoundTrip<'de, R>>⟧.same j v.last) ⊥ _
        (string_only s (λ w. string_bytes w) (string_bytes v.last)) (fields_none s))))))))))))))))))
        (λ m q w r. fields_both (codes "number" ∷ (codes "name"
        ∷ (codes "born" ∷ (codes "weight" ∷ (codes "height"
        ∷ (codes "fever" ∷ (codes "offset" ∷ (codes "balance"
        ∷ (codes "neutered" ∷ (codes "chip" ∷ (codes "owner"
        ∷ (codes "shots" ∷ (codes "notes" ∷ (codes "heart" ∷ (codes "lungs" ∷ (codes "last" ∷ [])))))))))))))))) _ _ _ m q r
        (λ ks i j. let x = field_only (⟦<u64 as Deserialize<'de, R>>⟧.reads s.human R.lends) ⟦<u64 as RoundTrip<'de, R>>⟧.same v.number w.number _ _ _ _
        (field_only (⟦<String as Deserialize<'de, R>>⟧.reads s.human R.lends) ⟦<String as RoundTrip<'de, R>>⟧.same v.name w.name _ _ _ _
        (field_only (⟦<u16 as Deserialize<'de, R>>⟧.reads s.human R.lends) ⟦<u16 as RoundTrip<'de, R>>⟧.same v.born w.born _ _ _ _
        (field_only (⟦<u8 as Deserialize<'de, R>>⟧.reads s.human R.lends) ⟦<u8 as RoundTrip<'de, R>>⟧.same v.weight w.weight _ _ _ _
        (field_only (⟦<i8 as Deserialize<'de, R>>⟧.reads s.human R.lends) ⟦<i8 as RoundTrip<'de, R>>⟧.same v.height w.height _ _ _ _
        (field_only (⟦<i16 as Deserialize<'de, R>>⟧.reads s.human R.lends) ⟦<i16 as RoundTrip<'de, R>>⟧.same v.fever w.fever _ _ _ _
        (field_only (⟦<i32 as Deserialize<'de, R>>⟧.reads s.human R.lends) ⟦<i32 as RoundTrip<'de, R>>⟧.same v.offset w.offset _ _ _ _
        (field_only (⟦<i64 as Deserialize<'de, R>>⟧.reads s.human R.lends) ⟦<i64 as RoundTrip<'de, R>>⟧.same v.balance w.balance _ _ _ _
        (field_only (⟦<bool as Deserialize<'de, R>>⟧.reads s.human R.lends) ⟦<bool as RoundTrip<'de, R>>⟧.same v.neutered w.neutered _ _ _ _
        (field_only (⟦<Option<u64> as Deserialize<'de, R>>⟧.reads s.human R.lends) ⟦<Option<u64> as RoundTrip<'de, R>>⟧.same v.chip w.chip _ _ _ _
        (field_only (⟦<Option<String> as Deserialize<'de, R>>⟧.reads s.human R.lends) ⟦<Option<String> as RoundTrip<'de, R>>⟧.same v.owner w.owner _ _ _ _
        (field_only (⟦<Vec<u16> as Deserialize<'de, R>>⟧.reads s.human R.lends) ⟦<Vec<u16> as RoundTrip<'de, R>>⟧.same v.shots w.shots _ _ _ _
        (field_only (⟦<Vec<String> as Deserialize<'de, R>>⟧.reads s.human R.lends) ⟦<Vec<String> as RoundTrip<'de, R>>⟧.same v.notes w.notes _ _ _ _
        (field_only (⟦<u32 as Deserialize<'de, R>>⟧.reads s.human R.lends) ⟦<u32 as RoundTrip<'de, R>>⟧.same v.heart w.heart _ _ _ _
        (field_only (⟦<u32 as Deserialize<'de, R>>⟧.reads s.human R.lends) ⟦<u32 as RoundTrip<'de, R>>⟧.same v.lungs w.lungs _ _ _ _
        (last_field (⟦<String as Deserialize<'de, R>>⟧.reads s.human R.lends) ⟦<String as RoundTrip<'de, R>>⟧.same v.last w.last _))))))))))))))) ks i j
        in (
          x.0,
          x.1.0,
          x.1.1.0,
          x.1.1.1.0,
          x.1.1.1.1.0,
          x.1.1.1.1.1.0,
          x.1.1.1.1.1.1.0,
          x.1.1.1.1.1.1.1.0,
          x.1.1.1.1.1.1.1.1.0,
          x.1.1.1.1.1.1.1.1.1.0,
          x.1.1.1.1.1.1.1.1.1.1.0,
          x.1.1.1.1.1.1.1.1.1.1.1.0,
          x.1.1.1.1.1.1.1.1.1.1.1.1.0,
          x.1.1.1.1.1.1.1.1.1.1.1.1.1.0,
          x.1.1.1.1.1.1.1.1.1.1.1.1.1.1.0,
          x.1.1.1.1.1.1.1.1.1.1.1.1.1.1.1,
        ))) };
}

impl NeverNil for Chart {
    ghost never_nil = { λ s v. structure_other s _ };
}

impl<'de, R: ReadSlice<'de>> EndsInside<'de, R> for Chart {
    ghost ends_inside = { fields_inside _ _ _ (
      number_inside,
      (
        string_inside,
        (
          number_inside,
          (
            number_inside,
            (
              number_inside,
              (
                number_inside,
                (
                  number_inside,
                  (
                    number_inside,
                    (
                      kind_inside,
                      (
                        (option_inside ⟦<u64 as Deserialize<'de, R>>⟧.refuses number_inside),
                        (
                          (option_inside ⟦<String as Deserialize<'de, R>>⟧.refuses string_inside),
                          (
                            (each_inside ⟦<u16 as Deserialize<'de, R>>⟧.reads ⟦<u16 as Deserialize<'de, R>>⟧.refuses number_inside),
                            (
                              (each_inside ⟦<String as Deserialize<'de, R>>⟧.reads ⟦<String as Deserialize<'de, R>>⟧.refuses string_inside),
                              (number_inside, (number_inside, (string_inside, tt))),
                            ),
                          ),
                        ),
                      ),
                    ),
                  ),
                ),
              ),
            ),
          ),
        ),
      ),
    ) };
}

impl Serialize for Survey {
    ghost data_of = { λ v human. structure_of ((codes "ship", ⟦<String as Serialize>⟧.data_of v.ship human)
        ∷ ((codes "course", ⟦<Course as Serialize>⟧.data_of v.course human)
        ∷ ((codes "crew", ⟦<Vec<(u8, String)> as Serialize>⟧.data_of v.crew human)
        ∷ ((codes "seal", ⟦<u128 as Serialize>⟧.data_of v.seal human)
        ∷ ((codes "nothing", ⟦<() as Serialize>⟧.data_of v.nothing human)
        ∷ ((codes "flag", ⟦<char as Serialize>⟧.data_of v.flag human)
        ∷ ((codes "spot", ⟦<Spot as Serialize>⟧.data_of v.spot human)
        ∷ ((codes "cargo", ⟦<BTreeMap<String, u64> as Serialize>⟧.data_of v.cargo human)
        ∷ ((codes "depths", ⟦<[u16; 3] as Serialize>⟧.data_of v.depths human)
        ∷ ((codes "last", ⟦<Option<Spot> as Serialize>⟧.data_of v.last human)
        ∷ ((codes "chart", ⟦<ByteBuf as Serialize>⟧.data_of v.chart human)
        ∷ ((codes "pair", ⟦<(i64, Option<bool>) as Serialize>⟧.data_of v.pair human)
        ∷ ((codes "owner", ⟦<Option<String> as Serialize>⟧.data_of v.owner human)
        ∷ ((codes "tonnage", ⟦<u32 as Serialize>⟧.data_of v.tonnage human)
        ∷ ((codes "draught", ⟦<F64Bits as Serialize>⟧.data_of v.draught human)
        ∷ ((codes "ports", ⟦<Vec<String> as Serialize>⟧.data_of v.ports human)
        ∷ ((codes "heading", ⟦<i16 as Serialize>⟧.data_of v.heading human)
        ∷ ((codes "debt", ⟦<i128 as Serialize>⟧.data_of v.debt human)
        ∷ ((codes "berths", ⟦<BTreeSet<u16> as Serialize>⟧.data_of v.berths human)
        ∷ ((codes "done", ⟦<bool as Serialize>⟧.data_of v.done human)
        ∷ ((codes "next", ⟦<Option<Course> as Serialize>⟧.data_of v.next human)
        ∷ ((codes "marks", ⟦<Vec<Spot> as Serialize>⟧.data_of v.marks human)
        ∷ ((codes "length", ⟦<u64 as Serialize>⟧.data_of v.length human)
        ∷ ((codes "beam", ⟦<u8 as Serialize>⟧.data_of v.beam human)
        ∷ ((codes "stores", ⟦<BTreeMap<u16, String> as Serialize>⟧.data_of v.stores human)
        ∷ ((codes "sounding", ⟦<Option<i64> as Serialize>⟧.data_of v.sounding human)
        ∷ ((codes "hatches", ⟦<[bool; 2] as Serialize>⟧.data_of v.hatches human)
        ∷ ((codes "legs", ⟦<Vec<Course> as Serialize>⟧.data_of v.legs human)
        ∷ ((codes "port", ⟦<(u8, String) as Serialize>⟧.data_of v.port human)
        ∷ ((codes "log", ⟦<Vec<ByteBuf> as Serialize>⟧.data_of v.log human)
        ∷ ((codes "crane", ⟦<Option<char> as Serialize>⟧.data_of v.crane human)
        ∷ ((codes "surveyor", ⟦<String as Serialize>⟧.data_of v.surveyor human) ∷ [])))))))))))))))))))))))))))))))) };

    ghost is_value = { λ v. ⟦<String as Serialize>⟧.is_value v.ship × ⟦<Course as Serialize>⟧.is_value v.course
        × ⟦<Vec<(u8, String)> as Serialize>⟧.is_value v.crew × ⟦<u128 as Serialize>⟧.is_value v.seal × ⟦<() as Serialize>⟧.is_value v.nothing
        × ⟦<char as Serialize>⟧.is_value v.flag × ⟦<Spot as Serialize>⟧.is_value v.spot × ⟦<BTreeMap<String, u64> as Serialize>⟧.is_value v.cargo
        × ⟦<[u16; 3] as Serialize>⟧.is_value v.depths × ⟦<Option<Spot> as Serialize>⟧.is_value v.last × ⟦<ByteBuf as Serialize>⟧.is_value v.chart
        × ⟦<(i64, Option<bool>) as Serialize>⟧.is_value v.pair × ⟦<Option<String> as Serialize>⟧.is_value v.owner × ⟦<u32 as Serialize>⟧.is_value v.tonnage
        × ⟦<F64Bits as Serialize>⟧.is_value v.draught × ⟦<Vec<String> as Serialize>⟧.is_value v.ports × ⟦<i16 as Serialize>⟧.is_value v.heading
        × ⟦<i128 as Serialize>⟧.is_value v.debt × ⟦<BTreeSet<u16> as Serialize>⟧.is_value v.berths × ⟦<bool as Serialize>⟧.is_value v.done
        × ⟦<Option<Course> as Serialize>⟧.is_value v.next × ⟦<Vec<Spot> as Serialize>⟧.is_value v.marks × ⟦<u64 as Serialize>⟧.is_value v.length
        × ⟦<u8 as Serialize>⟧.is_value v.beam × ⟦<BTreeMap<u16, String> as Serialize>⟧.is_value v.stores × ⟦<Option<i64> as Serialize>⟧.is_value v.sounding
        × ⟦<[bool; 2] as Serialize>⟧.is_value v.hatches × ⟦<Vec<Course> as Serialize>⟧.is_value v.legs × ⟦<(u8, String) as Serialize>⟧.is_value v.port
        × ⟦<Vec<ByteBuf> as Serialize>⟧.is_value v.log × ⟦<Option<char> as Serialize>⟧.is_value v.crane × ⟦<String as Serialize>⟧.is_value v.surveyor };

    ghost takes_memory = { λ s. one_of (⟦<String as Serialize>⟧.takes_memory s
        ∷ (⟦<Course as Serialize>⟧.takes_memory s ∷ (⟦<Vec<(u8, String)> as Serialize>⟧.takes_memory s
        ∷ (⟦<u128 as Serialize>⟧.takes_memory s ∷ (⟦<() as Serialize>⟧.takes_memory s
        ∷ (⟦<char as Serialize>⟧.takes_memory s ∷ (⟦<Spot as Serialize>⟧.takes_memory s
        ∷ (⟦<BTreeMap<String, u64> as Serialize>⟧.takes_memory s
        ∷ (⟦<[u16; 3] as Serialize>⟧.takes_memory s ∷ (⟦<Option<Spot> as Serialize>⟧.takes_memory s
        ∷ (⟦<ByteBuf as Serialize>⟧.takes_memory s ∷ (⟦<(i64, Option<bool>) as Serialize>⟧.takes_memory s
        ∷ (⟦<Option<String> as Serialize>⟧.takes_memory s ∷
        (⟦<u32 as Serialize>⟧.takes_memory s ∷ (⟦<F64Bits as Serialize>⟧.takes_memory s
        ∷ (⟦<Vec<String> as Serialize>⟧.takes_memory s ∷ (⟦<i16 as Serialize>⟧.takes_memory s
        ∷ (⟦<i128 as Serialize>⟧.takes_memory s ∷ (⟦<BTreeSet<u16> as Serialize>⟧.takes_memory s
        ∷ (⟦<bool as Serialize>⟧.takes_memory s ∷ (⟦<Option<Course> as Serialize>⟧.takes_memory s
        ∷ (⟦<Vec<Spot> as Serialize>⟧.takes_memory s ∷ (⟦<u64 as Serialize>⟧.takes_memory s
        ∷ (⟦<u8 as Serialize>⟧.takes_memory s ∷ (⟦<BTreeMap<u16, String> as Serialize>⟧.takes_memory s
        ∷ (⟦<Option<i64> as Serialize>⟧.takes_memory s ∷ (⟦<[bool; 2] as Serialize>⟧.takes_memory s
        ∷ (⟦<Vec<Course> as Serialize>⟧.takes_memory s ∷ (⟦<(u8, String) as Serialize>⟧.takes_memory s
        ∷ (⟦<Vec<ByteBuf> as Serialize>⟧.takes_memory s ∷ (⟦<Option<char> as Serialize>⟧.takes_memory s
        ∷ (⟦<String as Serialize>⟧.takes_memory s ∷ [])))))))))))))))))))))))))))))))) };

    ghost refuses = { λ v. OfParts ⊥ (⟦<String as Serialize>⟧.refuses v.ship
        ∷ (⟦<Course as Serialize>⟧.refuses v.course ∷ (⟦<Vec<(u8, String)> as Serialize>⟧.refuses v.crew
        ∷ (⟦<u128 as Serialize>⟧.refuses v.seal ∷ (⟦<() as Serialize>⟧.refuses v.nothing
        ∷ (⟦<char as Serialize>⟧.refuses v.flag ∷ (⟦<Spot as Serialize>⟧.refuses v.spot
        ∷ (⟦<BTreeMap<String, u64> as Serialize>⟧.refuses v.cargo
        ∷ (⟦<[u16; 3] as Serialize>⟧.refuses v.depths ∷ (⟦<Option<Spot> as Serialize>⟧.refuses v.last
        ∷ (⟦<ByteBuf as Serialize>⟧.refuses v.chart ∷ (⟦<(i64, Option<bool>) as Serialize>⟧.refuses v.pair
        ∷ (⟦<Option<String> as Serialize>⟧.refuses v.owner
        ∷ (⟦<u32 as Serialize>⟧.refuses v.tonnage ∷ (⟦<F64Bits as Serialize>⟧.refuses v.draught
        ∷ (⟦<Vec<String> as Serialize>⟧.refuses v.ports ∷ (⟦<i16 as Serialize>⟧.refuses v.heading
        ∷ (⟦<i128 as Serialize>⟧.refuses v.debt ∷ (⟦<BTreeSet<u16> as Serialize>⟧.refuses v.berths
        ∷ (⟦<bool as Serialize>⟧.refuses v.done ∷ (⟦<Option<Course> as Serialize>⟧.refuses v.next
        ∷ (⟦<Vec<Spot> as Serialize>⟧.refuses v.marks ∷ (⟦<u64 as Serialize>⟧.refuses v.length
        ∷ (⟦<u8 as Serialize>⟧.refuses v.beam ∷ (⟦<BTreeMap<u16, String> as Serialize>⟧.refuses v.stores
        ∷ (⟦<Option<i64> as Serialize>⟧.refuses v.sounding
        ∷ (⟦<[bool; 2] as Serialize>⟧.refuses v.hatches ∷ (⟦<Vec<Course> as Serialize>⟧.refuses v.legs
        ∷ (⟦<(u8, String) as Serialize>⟧.refuses v.port ∷ (⟦<Vec<ByteBuf> as Serialize>⟧.refuses v.log
        ∷ (⟦<Option<char> as Serialize>⟧.refuses v.crane ∷ (⟦<String as Serialize>⟧.refuses v.surveyor ∷ [])))))))))))))))))))))))))))))))) };

    fn serialize<W: Sink, C: SerializerConfig>(
        &self,
        se: &mut Serializer<W, C>,
    ) -> Result<(), rmp_encode::Error> {
        let parts = ThirtyTwoParts {
            first: &self.ship,
            second: &self.course,
            third: &self.crew,
            fourth: &self.seal,
            fifth: &self.nothing,
            sixth: &self.flag,
            seventh: &self.spot,
            eighth: &self.cargo,
            ninth: &self.depths,
            tenth: &self.last,
            eleventh: &self.chart,
            twelfth: &self.pair,
            thirteenth: &self.owner,
            fourteenth: &self.tonnage,
            fifteenth: &self.draught,
            sixteenth: &self.ports,
            seventeenth: &self.heading,
            eighteenth: &self.debt,
            nineteenth: &self.berths,
            twentieth: &self.done,
            twenty_first: &self.next,
            twenty_second: &self.marks,
            twenty_third: &self.length,
            twenty_fourth: &self.beam,
            twenty_fifth: &self.stores,
            twenty_sixth: &self.sounding,
            twenty_seventh: &self.hatches,
            twenty_eighth: &self.legs,
            twenty_ninth: &self.port,
            thirtieth: &self.log,
            thirty_first: &self.crane,
            thirty_second: &self.surveyor,
        };
        se.serialize_fields(
            "Survey",
            &[
                "ship", "course", "crew", "seal", "nothing", "flag", "spot", "cargo", "depths",
                "last", "chart", "pair", "owner", "tonnage", "draught", "ports", "heading", "debt",
                "berths", "done", "next", "marks", "length", "beam", "stores", "sounding",
                "hatches", "legs", "port", "log", "crane", "surveyor",
            ],
            &parts,
        )
    }

    #[tactic(auto, using(rmp_encode::proofs::Fields::structure_no_byte))]
    fn as_u8(&self, _human: bool) -> Option<u8> {
        None
    }
}

impl<'de, R: ReadSlice<'de>> Deserialize<'de, R> for Survey {
    ghost reads = { λ human lends m v. OfFields (codes "ship"
        ∷ (codes "course" ∷ (codes "crew" ∷ (codes "seal" ∷
        (codes "nothing" ∷ (codes "flag" ∷ (codes "spot" ∷
        (codes "cargo" ∷ (codes "depths" ∷ (codes "last" ∷
        (codes "chart" ∷ (codes "pair" ∷ (codes "owner" ∷ (codes "tonnage"
        ∷ (codes "draught" ∷ (codes "ports" ∷ (codes "heading"
        ∷ (codes "debt" ∷ (codes "berths" ∷ (codes "done" ∷
        (codes "next" ∷ (codes "marks" ∷ (codes "length" ∷
        (codes "beam" ∷ (codes "stores" ∷ (codes "sounding"
        ∷ (codes "hatches" ∷ (codes "legs" ∷ (codes "port" ∷ (codes "log" ∷ (codes "crane" ∷ (codes "surveyor" ∷ []))))))))))))))))))))))))))))))))
        (Field (λ j. ⟦<String as Deserialize<'de, R>>⟧.reads human lends j v.ship) (Absent ⟦<String as Deserialize<'de, R>>⟧.absent v.ship)
        (Field (λ j. ⟦<Course as Deserialize<'de, R>>⟧.reads human lends j v.course) (Absent ⟦<Course as Deserialize<'de, R>>⟧.absent v.course)
        (Field (λ j. ⟦<Vec<(u8, String)> as Deserialize<'de, R>>⟧.reads human lends j v.crew)
        (Absent ⟦<Vec<(u8, String)> as Deserialize<'de, R>>⟧.absent v.crew)
        (Field (λ j. ⟦<u128 as Deserialize<'de, R>>⟧.reads human lends j v.seal) (Absent ⟦<u128 as Deserialize<'de, R>>⟧.absent v.seal)
        (Field (λ j. ⟦<() as Deserialize<'de, R>>⟧.reads human lends j v.nothing) (Absent ⟦<() as Deserialize<'de, R>>⟧.absent v.nothing)
        (Field (λ j. ⟦<char as Deserialize<'de, R>>⟧.reads human lends j v.flag) (Absent ⟦<char as Deserialize<'de, R>>⟧.absent v.flag)
        (Field (λ j. ⟦<Spot as Deserialize<'de, R>>⟧.reads human lends j v.spot) (Absent ⟦<Spot as Deserialize<'de, R>>⟧.absent v.spot)
        (Field (λ j. ⟦<BTreeMap<String, u64> as Deserialize<'de, R>>⟧.reads human lends j v.cargo)
        (Absent ⟦<BTreeMap<String, u64> as Deserialize<'de, R>>⟧.absent v.cargo)
        (Field (λ j. ⟦<[u16; 3] as Deserialize<'de, R>>⟧.reads human lends j v.depths) (Absent ⟦<[u16; 3] as Deserialize<'de, R>>⟧.absent v.depths)
        (Field (λ j. ⟦<Option<Spot> as Deserialize<'de, R>>⟧.reads human lends j v.last) (Absent ⟦<Option<Spot> as Deserialize<'de, R>>⟧.absent v.last)
        (Field (λ j. ⟦<ByteBuf as Deserialize<'de, R>>⟧.reads human lends j v.chart) (Absent ⟦<ByteBuf as Deserialize<'de, R>>⟧.absent v.chart)
        (Field (λ j. ⟦<(i64, Option<bool>) as Deserialize<'de, R>>⟧.reads human lends j v.pair)
        (Absent ⟦<(i64, Option<bool>) as Deserialize<'de, R>>⟧.absent v.pair)
        (Field (λ j. ⟦<Option<String> as Deserialize<'de, R>>⟧.reads human lends j v.owner)
        (Absent ⟦<Option<String> as Deserialize<'de, R>>⟧.absent v.owner)
        (Field (λ j. ⟦<u32 as Deserialize<'de, R>>⟧.reads human lends j v.tonnage) (Absent ⟦<u32 as Deserialize<'de, R>>⟧.absent v.tonnage)
        (Field (λ j. ⟦<F64Bits as Deserialize<'de, R>>⟧.reads human lends j v.draught) (Absent ⟦<F64Bits as Deserialize<'de, R>>⟧.absent v.draught)
        (Field (λ j. ⟦<Vec<String> as Deserialize<'de, R>>⟧.reads human lends j v.ports) (Absent ⟦<Vec<String> as Deserialize<'de, R>>⟧.absent v.ports)
        (Field (λ j. ⟦<i16 as Deserialize<'de, R>>⟧.reads human lends j v.heading) (Absent ⟦<i16 as Deserialize<'de, R>>⟧.absent v.heading)
        (Field (λ j. ⟦<i128 as Deserialize<'de, R>>⟧.reads human lends j v.debt) (Absent ⟦<i128 as Deserialize<'de, R>>⟧.absent v.debt)
        (Field (λ j. ⟦<BTreeSet<u16> as Deserialize<'de, R>>⟧.reads human lends j v.berths)
        (Absent ⟦<BTreeSet<u16> as Deserialize<'de, R>>⟧.absent v.berths)
        (Field (λ j. ⟦<bool as Deserialize<'de, R>>⟧.reads human lends j v.done) (Absent ⟦<bool as Deserialize<'de, R>>⟧.absent v.done)
        (Field (λ j. ⟦<Option<Course> as Deserialize<'de, R>>⟧.reads human lends j v.next) (Absent ⟦<Option<Course> as Deserialize<'de, R>>⟧.absent v.next)
        (Field (λ j. ⟦<Vec<Spot> as Deserialize<'de, R>>⟧.reads human lends j v.marks) (Absent ⟦<Vec<Spot> as Deserialize<'de, R>>⟧.absent v.marks)
        (Field (λ j. ⟦<u64 as Deserialize<'de, R>>⟧.reads human lends j v.length) (Absent ⟦<u64 as Deserialize<'de, R>>⟧.absent v.length)
        (Field (λ j. ⟦<u8 as Deserialize<'de, R>>⟧.reads human lends j v.beam) (Absent ⟦<u8 as Deserialize<'de, R>>⟧.absent v.beam)
        (Field (λ j. ⟦<BTreeMap<u16, String> as Deserialize<'de, R>>⟧.reads human lends j v.stores)
        (Absent ⟦<BTreeMap<u16, String> as Deserialize<'de, R>>⟧.absent v.stores)
        (Field (λ j. ⟦<Option<i64> as Deserialize<'de, R>>⟧.reads human lends j v.sounding)
        (Absent ⟦<Option<i64> as Deserialize<'de, R>>⟧.absent v.sounding)
        (Field (λ j. ⟦<[bool; 2] as Deserialize<'de, R>>⟧.reads human lends j v.hatches) (Absent ⟦<[bool; 2] as Deserialize<'de, R>>⟧.absent v.hatches)
        (Field (λ j. ⟦<Vec<Course> as Deserialize<'de, R>>⟧.reads human lends j v.legs) (Absent ⟦<Vec<Course> as Deserialize<'de, R>>⟧.absent v.legs)
        (Field (λ j. ⟦<(u8, String) as Deserialize<'de, R>>⟧.reads human lends j v.port) (Absent ⟦<(u8, String) as Deserialize<'de, R>>⟧.absent v.port)
        (Field (λ j. ⟦<Vec<ByteBuf> as Deserialize<'de, R>>⟧.reads human lends j v.log) (Absent ⟦<Vec<ByteBuf> as Deserialize<'de, R>>⟧.absent v.log)
        (Field (λ j. ⟦<Option<char> as Deserialize<'de, R>>⟧.reads human lends j v.crane) (Absent ⟦<Option<char> as Deserialize<'de, R>>⟧.absent v.crane)
        (Field (λ j. ⟦<String as Deserialize<'de, R>>⟧.reads human lends j v.surveyor) (Absent ⟦<String as Deserialize<'de, R>>⟧.absent v.surveyor)
        NoField)))))))))))))))))))))))))))))))) m };

    ghost absent = { None };

    ghost refuses = { RefusesFields (codes "ship" ∷ (codes "course"
        ∷ (codes "crew" ∷ (codes "seal" ∷ (codes "nothing"
        ∷ (codes "flag" ∷ (codes "spot" ∷ (codes "cargo" ∷
        (codes "depths" ∷ (codes "last" ∷ (codes "chart" ∷
        (codes "pair" ∷ (codes "owner" ∷ (codes "tonnage" ∷
        (codes "draught" ∷ (codes "ports" ∷ (codes "heading"
        ∷ (codes "debt" ∷ (codes "berths" ∷ (codes "done" ∷
        (codes "next" ∷ (codes "marks" ∷ (codes "length" ∷
        (codes "beam" ∷ (codes "stores" ∷ (codes "sounding"
        ∷ (codes "hatches" ∷ (codes "legs" ∷ (codes "port" ∷ (codes "log" ∷ (codes "crane" ∷ (codes "surveyor" ∷ []))))))))))))))))))))))))))))))))
        (
        is_none ⟦<String as Deserialize<'de, R>>⟧.absent ∷ (
        is_none ⟦<Course as Deserialize<'de, R>>⟧.absent ∷ (
        is_none ⟦<Vec<(u8, String)> as Deserialize<'de, R>>⟧.absent ∷ (
        is_none ⟦<u128 as Deserialize<'de, R>>⟧.absent ∷ (
        is_none ⟦<() as Deserialize<'de, R>>⟧.absent ∷ (
        is_none ⟦<char as Deserialize<'de, R>>⟧.absent ∷ (
        is_none ⟦<Spot as Deserialize<'de, R>>⟧.absent ∷ (
        is_none ⟦<BTreeMap<String, u64> as Deserialize<'de, R>>⟧.absent ∷ (
        is_none ⟦<[u16; 3] as Deserialize<'de, R>>⟧.absent ∷ (
        is_none ⟦<Option<Spot> as Deserialize<'de, R>>⟧.absent ∷ (
        is_none ⟦<ByteBuf as Deserialize<'de, R>>⟧.absent ∷ (
        is_none ⟦<(i64, Option<bool>) as Deserialize<'de, R>>⟧.absent ∷ (
        is_none ⟦<Option<String> as Deserialize<'de, R>>⟧.absent ∷ (
        is_none ⟦<u32 as Deserialize<'de, R>>⟧.absent ∷ (
        is_none ⟦<F64Bits as Deserialize<'de, R>>⟧.absent ∷ (
        is_none ⟦<Vec<String> as Deserialize<'de, R>>⟧.absent ∷ (
        is_none ⟦<i16 as Deserialize<'de, R>>⟧.absent ∷ (
        is_none ⟦<i128 as Deserialize<'de, R>>⟧.absent ∷ (
        is_none ⟦<BTreeSet<u16> as Deserialize<'de, R>>⟧.absent ∷ (
        is_none ⟦<bool as Deserialize<'de, R>>⟧.absent ∷ (
        is_none ⟦<Option<Course> as Deserialize<'de, R>>⟧.absent ∷ (
        is_none ⟦<Vec<Spot> as Deserialize<'de, R>>⟧.absent ∷ (
        is_none ⟦<u64 as Deserialize<'de, R>>⟧.absent ∷ (
        is_none ⟦<u8 as Deserialize<'de, R>>⟧.absent ∷ (
        is_none ⟦<BTreeMap<u16, String> as Deserialize<'de, R>>⟧.absent ∷ (
        is_none ⟦<Option<i64> as Deserialize<'de, R>>⟧.absent ∷ (
        is_none ⟦<[bool; 2] as Deserialize<'de, R>>⟧.absent ∷ (
        is_none ⟦<Vec<Course> as Deserialize<'de, R>>⟧.absent ∷ (
        is_none ⟦<(u8, String) as Deserialize<'de, R>>⟧.absent ∷ (
        is_none ⟦<Vec<ByteBuf> as Deserialize<'de, R>>⟧.absent ∷ (
        is_none ⟦<Option<char> as Deserialize<'de, R>>⟧.absent ∷ (
        is_none ⟦<String as Deserialize<'de, R>>⟧.absent ∷ []))))))))))))))))))))))))))))))))
        (
        part_of ⟦<String as Deserialize<'de, R>>⟧.reads ⟦<String as Deserialize<'de, R>>⟧.refuses ∷ (
        part_of ⟦<Course as Deserialize<'de, R>>⟧.reads ⟦<Course as Deserialize<'de, R>>⟧.refuses ∷ (
        part_of ⟦<Vec<(u8, String)> as Deserialize<'de, R>>⟧.reads ⟦<Vec<(u8, String)> as Deserialize<'de, R>>⟧.refuses ∷ (
        part_of ⟦<u128 as Deserialize<'de, R>>⟧.reads ⟦<u128 as Deserialize<'de, R>>⟧.refuses ∷ (
        part_of ⟦<() as Deserialize<'de, R>>⟧.reads ⟦<() as Deserialize<'de, R>>⟧.refuses ∷ (
        part_of ⟦<char as Deserialize<'de, R>>⟧.reads ⟦<char as Deserialize<'de, R>>⟧.refuses ∷ (
        part_of ⟦<Spot as Deserialize<'de, R>>⟧.reads ⟦<Spot as Deserialize<'de, R>>⟧.refuses ∷ (
        part_of ⟦<BTreeMap<String, u64> as Deserialize<'de, R>>⟧.reads ⟦<BTreeMap<String, u64> as Deserialize<'de, R>>⟧.refuses ∷ (
        part_of ⟦<[u16; 3] as Deserialize<'de, R>>⟧.reads ⟦<[u16; 3] as Deserialize<'de, R>>⟧.refuses ∷ (
        part_of ⟦<Option<Spot> as Deserialize<'de, R>>⟧.reads ⟦<Option<Spot> as Deserialize<'de, R>>⟧.refuses ∷ (
        part_of ⟦<ByteBuf as Deserialize<'de, R>>⟧.reads ⟦<ByteBuf as Deserialize<'de, R>>⟧.refuses ∷ (
        part_of ⟦<(i64, Option<bool>) as Deserialize<'de, R>>⟧.reads ⟦<(i64, Option<bool>) as Deserialize<'de, R>>⟧.refuses ∷ (
        part_of ⟦<Option<String> as Deserialize<'de, R>>⟧.reads ⟦<Option<String> as Deserialize<'de, R>>⟧.refuses ∷ (
        part_of ⟦<u32 as Deserialize<'de, R>>⟧.reads ⟦<u32 as Deserialize<'de, R>>⟧.refuses ∷ (
        part_of ⟦<F64Bits as Deserialize<'de, R>>⟧.reads ⟦<F64Bits as Deserialize<'de, R>>⟧.refuses ∷ (
        part_of ⟦<Vec<String> as Deserialize<'de, R>>⟧.reads ⟦<Vec<String> as Deserialize<'de, R>>⟧.refuses ∷ (
        part_of ⟦<i16 as Deserialize<'de, R>>⟧.reads ⟦<i16 as Deserialize<'de, R>>⟧.refuses ∷ (
        part_of ⟦<i128 as Deserialize<'de, R>>⟧.reads ⟦<i128 as Deserialize<'de, R>>⟧.refuses ∷ (
        part_of ⟦<BTreeSet<u16> as Deserialize<'de, R>>⟧.reads ⟦<BTreeSet<u16> as Deserialize<'de, R>>⟧.refuses ∷ (
        part_of ⟦<bool as Deserialize<'de, R>>⟧.reads ⟦<bool as Deserialize<'de, R>>⟧.refuses ∷ (
        part_of ⟦<Option<Course> as Deserialize<'de, R>>⟧.reads ⟦<Option<Course> as Deserialize<'de, R>>⟧.refuses ∷ (
        part_of ⟦<Vec<Spot> as Deserialize<'de, R>>⟧.reads ⟦<Vec<Spot> as Deserialize<'de, R>>⟧.refuses ∷ (
        part_of ⟦<u64 as Deserialize<'de, R>>⟧.reads ⟦<u64 as Deserialize<'de, R>>⟧.refuses ∷ (
        part_of ⟦<u8 as Deserialize<'de, R>>⟧.reads ⟦<u8 as Deserialize<'de, R>>⟧.refuses ∷ (
        part_of ⟦<BTreeMap<u16, String> as Deserialize<'de, R>>⟧.reads ⟦<BTreeMap<u16, String> as Deserialize<'de, R>>⟧.refuses ∷ (
        part_of ⟦<Option<i64> as Deserialize<'de, R>>⟧.reads ⟦<Option<i64> as Deserialize<'de, R>>⟧.refuses ∷ (
        part_of ⟦<[bool; 2] as Deserialize<'de, R>>⟧.reads ⟦<[bool; 2] as Deserialize<'de, R>>⟧.refuses ∷ (
        part_of ⟦<Vec<Course> as Deserialize<'de, R>>⟧.reads ⟦<Vec<Course> as Deserialize<'de, R>>⟧.refuses ∷ (
        part_of ⟦<(u8, String) as Deserialize<'de, R>>⟧.reads ⟦<(u8, String) as Deserialize<'de, R>>⟧.refuses ∷ (
        part_of ⟦<Vec<ByteBuf> as Deserialize<'de, R>>⟧.reads ⟦<Vec<ByteBuf> as Deserialize<'de, R>>⟧.refuses ∷ (
        part_of ⟦<Option<char> as Deserialize<'de, R>>⟧.reads ⟦<Option<char> as Deserialize<'de, R>>⟧.refuses ∷ (
        part_of ⟦<String as Deserialize<'de, R>>⟧.reads ⟦<String as Deserialize<'de, R>>⟧.refuses ∷ [])))))))))))))))))))))))))))))))) };

    fn deserialize<C: SerializerConfig>(
        de: &mut Deserializer<R, C>,
    ) -> Result<Survey, rmp_decode::Error> {
        let read: Result<
            SixteenThen<
                String,
                Course,
                Vec<(u8, String)>,
                u128,
                (),
                char,
                Spot,
                BTreeMap<String, u64>,
                [u16; 3],
                Option<Spot>,
                ByteBuf,
                (i64, Option<bool>),
                Option<String>,
                u32,
                F64Bits,
                Vec<String>,
                SixteenThen<
                    i16,
                    i128,
                    BTreeSet<u16>,
                    bool,
                    Option<Course>,
                    Vec<Spot>,
                    u64,
                    u8,
                    BTreeMap<u16, String>,
                    Option<i64>,
                    [bool; 2],
                    Vec<Course>,
                    (u8, String),
                    Vec<ByteBuf>,
                    Option<char>,
                    String,
                    (),
                >,
            >,
            rmp_decode::Error,
        > = de.deserialize_fields(&[
            "ship", "course", "crew", "seal", "nothing", "flag", "spot", "cargo", "depths", "last",
            "chart", "pair", "owner", "tonnage", "draught", "ports", "heading", "debt", "berths",
            "done", "next", "marks", "length", "beam", "stores", "sounding", "hatches", "legs",
            "port", "log", "crane", "surveyor",
        ]);
        match read {
            Ok(parts) => {
                let SixteenThen {
                    first: ship,
                    second: course,
                    third: crew,
                    fourth: seal,
                    fifth: nothing,
                    sixth: flag,
                    seventh: spot,
                    eighth: cargo,
                    ninth: depths,
                    tenth: last,
                    eleventh: chart,
                    twelfth: pair,
                    thirteenth: owner,
                    fourteenth: tonnage,
                    fifteenth: draught,
                    sixteenth: ports,
                    rest: others,
                } = parts;
                let SixteenThen {
                    first: heading,
                    second: debt,
                    third: berths,
                    fourth: done,
                    fifth: next,
                    sixth: marks,
                    seventh: length,
                    eighth: beam,
                    ninth: stores,
                    tenth: sounding,
                    eleventh: hatches,
                    twelfth: legs,
                    thirteenth: port,
                    fourteenth: log,
                    fifteenth: crane,
                    sixteenth: surveyor,
                    rest: (),
                } = others;
                return Ok(Survey {
                    ship,
                    course,
                    crew,
                    seal,
                    nothing,
                    flag,
                    spot,
                    cargo,
                    depths,
                    last,
                    chart,
                    pair,
                    owner,
                    tonnage,
                    draught,
                    ports,
                    heading,
                    debt,
                    berths,
                    done,
                    next,
                    marks,
                    length,
                    beam,
                    stores,
                    sounding,
                    hatches,
                    legs,
                    port,
                    log,
                    crane,
                    surveyor,
                });
            }
            Err(e) => return Err(e),
        }
    }

    fn missing() -> Option<Survey> {
        None
    }
}

impl<'de, R: ReadSlice<'de>> RoundTrip<'de, R> for Survey {
    ghost use Rattle.test_mixed.specs.contracts.mixed.derived.CourseNeverNil.TheImpl.Laws as course_other;
    ghost use Rattle.test_mixed.specs.contracts.mixed.derived.CourseRoundTrip.TheImpl.Laws as course_rounds;
    ghost use Rattle.test_mixed.specs.contracts.mixed.derived.SpotNeverNil.TheImpl.Laws as spot_other;
    ghost use Rattle.test_mixed.specs.contracts.mixed.derived.SpotRoundTrip.TheImpl.Laws as spot_rounds;
    ghost use mir.Syntax.{given};

    ghost has_data = { λ human v. structure_all ((codes "ship", ⟦<String as Serialize>⟧.data_of v.ship human)
        ∷ ((codes "course", ⟦<Course as Serialize>⟧.data_of v.course human)
        ∷ ((codes "crew", ⟦<Vec<(u8, String)> as Serialize>⟧.data_of v.crew human)
        ∷ ((codes "seal", ⟦<u128 as Serialize>⟧.data_of v.seal human)
        ∷ ((codes "nothing", ⟦<() as Serialize>⟧.data_of v.nothing human)
        ∷ ((codes "flag", ⟦<char as Serialize>⟧.data_of v.flag human)
        ∷ ((codes "spot", ⟦<Spot as Serialize>⟧.data_of v.spot human)
        ∷ ((codes "cargo", ⟦<BTreeMap<String, u64> as Serialize>⟧.data_of v.cargo human)
        ∷ ((codes "depths", ⟦<[u16; 3] as Serialize>⟧.data_of v.depths human)
        ∷ ((codes "last", ⟦<Option<Spot> as Serialize>⟧.data_of v.last human)
        ∷ ((codes "chart", ⟦<ByteBuf as Serialize>⟧.data_of v.chart human)
        ∷ ((codes "pair", ⟦<(i64, Option<bool>) as Serialize>⟧.data_of v.pair human)
        ∷ ((codes "owner", ⟦<Option<String> as Serialize>⟧.data_of v.owner human)
        ∷ ((codes "tonnage", ⟦<u32 as Serialize>⟧.data_of v.tonnage human)
        ∷ ((codes "draught", ⟦<F64Bits as Serialize>⟧.data_of v.draught human)
        ∷ ((codes "ports", ⟦<Vec<String> as Serialize>⟧.data_of v.ports human)
        ∷ ((codes "heading", ⟦<i16 as Serialize>⟧.data_of v.heading human)
        ∷ ((codes "debt", ⟦<i128 as Serialize>⟧.data_of v.debt human)
        ∷ ((codes "berths", ⟦<BTreeSet<u16> as Serialize>⟧.data_of v.berths human)
        ∷ ((codes "done", ⟦<bool as Serialize>⟧.data_of v.done human)
        ∷ ((codes "next", ⟦<Option<Course> as Serialize>⟧.data_of v.next human)
        ∷ ((codes "marks", ⟦<Vec<Spot> as Serialize>⟧.data_of v.marks human)
        ∷ ((codes "length", ⟦<u64 as Serialize>⟧.data_of v.length human)
        ∷ ((codes "beam", ⟦<u8 as Serialize>⟧.data_of v.beam human)
        ∷ ((codes "stores", ⟦<BTreeMap<u16, String> as Serialize>⟧.data_of v.stores human)
        ∷ ((codes "sounding", ⟦<Option<i64> as Serialize>⟧.data_of v.sounding human)
        ∷ ((codes "hatches", ⟦<[bool; 2] as Serialize>⟧.data_of v.hatches human)
        ∷ ((codes "legs", ⟦<Vec<Course> as Serialize>⟧.data_of v.legs human)
        ∷ ((codes "port", ⟦<(u8, String) as Serialize>⟧.data_of v.port human)
        ∷ ((codes "log", ⟦<Vec<ByteBuf> as Serialize>⟧.data_of v.log human)
        ∷ ((codes "crane", ⟦<Option<char> as Serialize>⟧.data_of v.crane human)
        ∷ ((codes "surveyor", ⟦<String as Serialize>⟧.data_of v.surveyor human) ∷ [])))))))))))))))))))))))))))))))) (
          refl,
          (
            (course_rounds.has_data-law R.row R.ReadSlice.own (given 0) R.Source (given 0) human v.course),
            (
              (slice_some _ (each_some (λ x. ⟦<(u8, String) as Serialize>⟧.data_of x human)
                  (λ x2. (tuple_all (⟦<u8 as Serialize>⟧.data_of x2.0 human ∷ (⟦<String as Serialize>⟧.data_of x2.1 human ∷ [])) (refl, (refl, tt)))) v.crew.items)),
              (
                refl,
                (
                  refl,
                  (
                    refl,
                    (
                      (spot_rounds.has_data-law R.row R.ReadSlice.own (given 0) R.Source (given 0) human v.spot),
                      (
                        (mapping_some (λ x. ⟦<String as Serialize>⟧.data_of x human) (λ x. ⟦<u64 as Serialize>⟧.data_of x human) (λ x4. refl) (λ x4. refl)
                            v.cargo.entries),
                        (
                          (tuple_some _ (each_some (λ x. ⟦<u16 as Serialize>⟧.data_of x human) (λ x5. refl) v.depths)),
                          (
                            (option_some (λ x. ⟦<Spot as Serialize>⟧.data_of x human)
                                (λ x6. (spot_rounds.has_data-law R.row R.ReadSlice.own (given 0) R.Source (given 0) human x6)) v.last),
                            (
                              refl,
                              (
                                (tuple_all (⟦<i64 as Serialize>⟧.data_of v.pair.0 human ∷ (⟦<Option<bool> as Serialize>⟧.data_of v.pair.1 human ∷ []))
                                    (refl, ((option_some (λ x. ⟦<bool as Serialize>⟧.data_of x human) (λ x8. refl) v.pair.1), tt))),
                                (
                                  (option_some (λ x. ⟦<String as Serialize>⟧.data_of x human) (λ x9. refl) v.owner),
                                  (
                                    refl,
                                    (
                                      refl,
                                      (
                                        (slice_some _ (each_some (λ x. ⟦<String as Serialize>⟧.data_of x human) (λ x10. refl) v.ports.items)),
                                        (
                                          refl,
                                          (
                                            refl,
                                            (
                                              (sequence_some _ (each_some (λ x. ⟦<u16 as Serialize>⟧.data_of x human) (λ x11. refl) v.berths.keys)),
                                              (
                                                refl,
                                                (
                                                  (option_some (λ x. ⟦<Course as Serialize>⟧.data_of x human)
                                                      (λ x12. (course_rounds.has_data-law R.row R.ReadSlice.own (given 0) R.Source (given 0) human x12)) v.next),
                                                  (
                                                    (slice_some _ (each_some (λ x. ⟦<Spot as Serialize>⟧.data_of x human)
                                                        (λ x14. (spot_rounds.has_data-law R.row R.ReadSlice.own (given 0) R.Source (given 0) human x14)) v.marks.items)),
                                                    (
                                                      refl,
                                                      (
                                                        refl,
                                                        (
                                                          (mapping_some (λ x. ⟦<u16 as Serialize>⟧.data_of x human) (λ x. ⟦<String as Serialize>⟧.data_of x human) (λ x16. refl) (λ x16. refl)
                                                              v.stores.entries),
                                                          (
                                                            (option_some (λ x. ⟦<i64 as Serialize>⟧.data_of x human) (λ x17. refl) v.sounding),
                                                            (
                                                              (tuple_some _ (each_some (λ x. ⟦<bool as Serialize>⟧.data_of x human) (λ x18. refl) v.hatches)),
                                                              (
                                                                (slice_some _ (each_some (λ x. ⟦<Course as Serialize>⟧.data_of x human)
                                                                    (λ x19. (course_rounds.has_data-law R.row R.ReadSlice.own (given 0) R.Source (given 0) human x19)) v.legs.items)),
                                                                (
                                                                  (tuple_all (⟦<u8 as Serialize>⟧.data_of v.port.0 human ∷ (⟦<String as Serialize>⟧.data_of v.port.1 human ∷ [])) (refl, (refl, tt))),
                                                                  (
                                                                    (slice_some _ (each_some (λ x. ⟦<ByteBuf as Serialize>⟧.data_of x human) (λ x21. refl) v.log.items)),
                                                                    ((option_some (λ x. ⟦<char as Serialize>⟧.data_of x human) (λ x22. refl) v.crane), (refl, tt)),
                                                                  ),
                                                                ),
                                                              ),
                                                            ),
                                                          ),
                                                        ),
                                                      ),
                                                    ),
                                                  ),
                                                ),
                                              ),
                                            ),
                                          ),
                                        ),
                                      ),
                                    ),
                                  ),
                                ),
                              ),
                            ),
                          ),
                        ),
                      ),
                    ),
                  ),
                ),
              ),
            ),
          ),
        ) };

    ghost round = { λ lent s v fits. structure_row s (codes "ship"
        ∷ (codes "course" ∷ (codes "crew" ∷ (codes "seal" ∷
        (codes "nothing" ∷ (codes "flag" ∷ (codes "spot" ∷
        (codes "cargo" ∷ (codes "depths" ∷ (codes "last" ∷
        (codes "chart" ∷ (codes "pair" ∷ (codes "owner" ∷ (codes "tonnage"
        ∷ (codes "draught" ∷ (codes "ports" ∷ (codes "heading"
        ∷ (codes "debt" ∷ (codes "berths" ∷ (codes "done" ∷
        (codes "next" ∷ (codes "marks" ∷ (codes "length" ∷
        (codes "beam" ∷ (codes "stores" ∷ (codes "sounding"
        ∷ (codes "hatches" ∷ (codes "legs" ∷ (codes "port" ∷ (codes "log" ∷ (codes "crane" ∷ (codes "surveyor" ∷ [])))))))))))))))))))))))))))))))) _ _ refl
        (fields_cons s (codes "ship") _ _ _ (λ j. ⟦<String as Deserialize<'de, R>>⟧.reads s.human R.lends j v.ship)
        (Absent ⟦<String as Deserialize<'de, R>>⟧.absent v.ship) _ (string_row s (string_bytes v.ship))
        (fields_cons s (codes "course") _ _ _ (λ j. ⟦<Course as Deserialize<'de, R>>⟧.reads s.human R.lends j v.course)
        (Absent ⟦<Course as Deserialize<'de, R>>⟧.absent v.course) _
        (course_rounds.round-law R.row R.ReadSlice.own (given 0) R.Source (given 0) (λ e. cc) s v.course fits.1)
        (fields_cons s (codes "crew") _ _ _ (λ j. ⟦<Vec<(u8, String)> as Deserialize<'de, R>>⟧.reads s.human R.lends j v.crew)
        (Absent ⟦<Vec<(u8, String)> as Deserialize<'de, R>>⟧.absent v.crew) _
        (slice_row s _ (λ ms. ReadsEach (⟦<(u8, String) as Deserialize<'de, R>>⟧.reads s.human R.lends) ms v.crew.items)
        (each_row s (λ x. ⟦<(u8, String) as Serialize>⟧.data_of x s.human) ⟦<(u8, String) as Serialize>⟧.is_value
        (⟦<(u8, String) as Deserialize<'de, R>>⟧.reads s.human R.lends)
        (λ x23 h23. (tuple_row s _ _ (rows_cons s _ _ (λ j. ⟦<u8 as Deserialize<'de, R>>⟧.reads s.human R.lends j x23.0) _ (byte_row s x23.0 h23.0)
        (rows_cons s _ _ (λ j. ⟦<String as Deserialize<'de, R>>⟧.reads s.human R.lends j x23.1) _ (string_row s (string_bytes x23.1)) (rows_none s)))))
        v.crew.items fits.2)) (fields_cons s (codes "seal") _ _ _ (λ j. ⟦<u128 as Deserialize<'de, R>>⟧.reads s.human R.lends j v.seal)
        (Absent ⟦<u128 as Deserialize<'de, R>>⟧.absent v.seal) _ (unsigned128_row s v.seal fits.3)
        (fields_cons s (codes "nothing") _ _ _ (λ j. ⟦<() as Deserialize<'de, R>>⟧.reads s.human R.lends j v.nothing)
        (Absent ⟦<() as Deserialize<'de, R>>⟧.absent v.nothing) _ (unit_row s)
        (fields_cons s (codes "flag") _ _ _ (λ j. ⟦<char as Deserialize<'de, R>>⟧.reads s.human R.lends j v.flag)
        (Absent ⟦<char as Deserialize<'de, R>>⟧.absent v.flag) _ (char_row s v.flag fits.5)
        (fields_cons s (codes "spot") _ _ _ (λ j. ⟦<Spot as Deserialize<'de, R>>⟧.reads s.human R.lends j v.spot)
        (Absent ⟦<Spot as Deserialize<'de, R>>⟧.absent v.spot) _
        (spot_rounds.round-law R.row R.ReadSlice.own (given 0) R.Source (given 0) (λ e. cc) s v.spot fits.6)
        (fields_cons s (codes "cargo") _ _ _ (λ j. ⟦<BTreeMap<String, u64> as Deserialize<'de, R>>⟧.reads s.human R.lends j v.cargo)
        (Absent ⟦<BTreeMap<String, u64> as Deserialize<'de, R>>⟧.absent v.cargo) _
        (map_row s (λ x. ⟦<String as Serialize>⟧.data_of x s.human) (λ x. ⟦<u64 as Serialize>⟧.data_of x s.human) ⟦<String as Serialize>⟧.is_value
        ⟦<u64 as Serialize>⟧.is_value (⟦<String as Deserialize<'de, R>>⟧.reads s.human R.lends) (⟦<u64 as Deserialize<'de, R>>⟧.reads s.human R.lends)
        (λ x24 h24. (string_row s (string_bytes x24))) (λ x25 h25. (unsigned_row_64 s x25 h25)) (on_total (λ x. string_bytes x) nat_list_cmp_total)
        v.cargo.entries fits.7.1 fits.7.0) (fields_cons s (codes "depths") _ _ _ (λ j. ⟦<[u16; 3] as Deserialize<'de, R>>⟧.reads s.human R.lends j v.depths)
        (Absent ⟦<[u16; 3] as Deserialize<'de, R>>⟧.absent v.depths) _
        (tuple_row s _ (Exactly 3 (⟦<u16 as Deserialize<'de, R>>⟧.reads s.human R.lends) v.depths)
        (rows_map s _ _ _ (λ ms each. (fits.8.0, each)) (each_row s (λ x. ⟦<u16 as Serialize>⟧.data_of x s.human) ⟦<u16 as Serialize>⟧.is_value
        (⟦<u16 as Deserialize<'de, R>>⟧.reads s.human R.lends) (λ x26 h26. (unsigned_row_16 s x26 h26)) v.depths fits.8.1)))
        (fields_cons s (codes "last") _ _ _ (λ j. ⟦<Option<Spot> as Deserialize<'de, R>>⟧.reads s.human R.lends j v.last)
        (Absent ⟦<Option<Spot> as Deserialize<'de, R>>⟧.absent v.last) _
        (option_row s (λ x. ⟦<Spot as Serialize>⟧.data_of x s.human) ⟦<Spot as Serialize>⟧.is_value (⟦<Spot as Deserialize<'de, R>>⟧.reads s.human R.lends)
        (λ x28. spot_other.never_nil-law s x28) (λ x27 h27. (spot_rounds.round-law R.row R.ReadSlice.own (given 0) R.Source (given 0) (λ e. cc) s x27 h27))
        v.last fits.9) (fields_cons s (codes "chart") _ _ _ (λ j. ⟦<ByteBuf as Deserialize<'de, R>>⟧.reads s.human R.lends j v.chart)
        (Absent ⟦<ByteBuf as Deserialize<'de, R>>⟧.absent v.chart) _ (buffer_row s (buffer_bytes v.chart))
        (fields_cons s (codes "pair") _ _ _ (λ j. ⟦<(i64, Option<bool>) as Deserialize<'de, R>>⟧.reads s.human R.lends j v.pair)
        (Absent ⟦<(i64, Option<bool>) as Deserialize<'de, R>>⟧.absent v.pair) _
        (tuple_row s _ _ (rows_cons s _ _ (λ j. ⟦<i64 as Deserialize<'de, R>>⟧.reads s.human R.lends j v.pair.0) _ (signed_row_64 s v.pair.0 fits.11.0)
        (rows_cons s _ _ (λ j. ⟦<Option<bool> as Deserialize<'de, R>>⟧.reads s.human R.lends j v.pair.1) _
        (option_row s (λ x. ⟦<bool as Serialize>⟧.data_of x s.human) ⟦<bool as Serialize>⟧.is_value (⟦<bool as Deserialize<'de, R>>⟧.reads s.human R.lends)
        (λ x30. truth_other s x30) (λ x29 h29. (truth_row s x29)) v.pair.1 fits.11.1) (rows_none s))))
        (fields_cons s (codes "owner") _ _ _ (λ j. ⟦<Option<String> as Deserialize<'de, R>>⟧.reads s.human R.lends j v.owner)
        (Absent ⟦<Option<String> as Deserialize<'de, R>>⟧.absent v.owner) _
        (option_row s (λ x. ⟦<String as Serialize>⟧.data_of x s.human) ⟦<String as Serialize>⟧.is_value
        (⟦<String as Deserialize<'de, R>>⟧.reads s.human R.lends) (λ x32. text_other s (string_bytes x32)) (λ x31 h31. (string_row s (string_bytes x31)))
        v.owner fits.12) (fields_cons s (codes "tonnage") _ _ _ (λ j. ⟦<u32 as Deserialize<'de, R>>⟧.reads s.human R.lends j v.tonnage)
        (Absent ⟦<u32 as Deserialize<'de, R>>⟧.absent v.tonnage) _ (unsigned_row_32 s v.tonnage fits.13)
        (fields_cons s (codes "draught") _ _ _ (λ j. ⟦<F64Bits as Deserialize<'de, R>>⟧.reads s.human R.lends j v.draught)
        (Absent ⟦<F64Bits as Deserialize<'de, R>>⟧.absent v.draught) _ (float64_row s v.draught.0)
        (fields_cons s (codes "ports") _ _ _ (λ j. ⟦<Vec<String> as Deserialize<'de, R>>⟧.reads s.human R.lends j v.ports)
        (Absent ⟦<Vec<String> as Deserialize<'de, R>>⟧.absent v.ports) _
        (slice_row s _ (λ ms. ReadsEach (⟦<String as Deserialize<'de, R>>⟧.reads s.human R.lends) ms v.ports.items)
        (each_row s (λ x. ⟦<String as Serialize>⟧.data_of x s.human) ⟦<String as Serialize>⟧.is_value
        (⟦<String as Deserialize<'de, R>>⟧.reads s.human R.lends) (λ x33 h33. (string_row s (string_bytes x33))) v.ports.items fits.15))
        (fields_cons s (codes "heading") _ _ _ (λ j. ⟦<i16 as Deserialize<'de, R>>⟧.reads s.human R.lends j v.heading)
        (Absent ⟦<i16 as Deserialize<'de, R>>⟧.absent v.heading) _ (signed_row_16 s v.heading fits.16)
        (fields_cons s (codes "debt") _ _ _ (λ j. ⟦<i128 as Deserialize<'de, R>>⟧.reads s.human R.lends j v.debt)
        (Absent ⟦<i128 as Deserialize<'de, R>>⟧.absent v.debt) _ (signed128_row s v.debt fits.17)
        (fields_cons s (codes "berths") _ _ _ (λ j. ⟦<BTreeSet<u16> as Deserialize<'de, R>>⟧.reads s.human R.lends j v.berths)
        (Absent ⟦<BTreeSet<u16> as Deserialize<'de, R>>⟧.absent v.berths) _
        (set_row s (λ x. ⟦<u16 as Serialize>⟧.data_of x s.human) ⟦<u16 as Serialize>⟧.is_value (⟦<u16 as Deserialize<'de, R>>⟧.reads s.human R.lends)
        (λ x34 h34. (unsigned_row_16 s x34 h34)) ⟦<u16 as Ord>⟧.cmp v.berths.keys fits.18.1 fits.18.0)
        (fields_cons s (codes "done") _ _ _ (λ j. ⟦<bool as Deserialize<'de, R>>⟧.reads s.human R.lends j v.done)
        (Absent ⟦<bool as Deserialize<'de, R>>⟧.absent v.done) _ (truth_row s v.done)
        (fields_cons s (codes "next") _ _ _ (λ j. ⟦<Option<Course> as Deserialize<'de, R>>⟧.reads s.human R.lends j v.next)
        (Absent ⟦<Option<Course> as Deserialize<'de, R>>⟧.absent v.next) _
        (option_row s (λ x. ⟦<Course as Serialize>⟧.data_of x s.human) ⟦<Course as Serialize>⟧.is_value
        (⟦<Course as Deserialize<'de, R>>⟧.reads s.human R.lends) (λ x36. course_other.never_nil-law s x36)
        (λ x35 h35. (course_rounds.round-law R.row R.ReadSlice.own (given 0) R.Source (given 0) (λ e. cc) s x35 h35)) v.next fits.20)
        (fields_cons s (codes "marks") _ _ _ (λ j. ⟦<Vec<Spot> as Deserialize<'de, R>>⟧.reads s.human R.lends j v.marks)
        (Absent ⟦<Vec<Spot> as Deserialize<'de, R>>⟧.absent v.marks) _
        (slice_row s _ (λ ms. ReadsEach (⟦<Spot as Deserialize<'de, R>>⟧.reads s.human R.lends) ms v.marks.items)
        (each_row s (λ x. ⟦<Spot as Serialize>⟧.data_of x s.human) ⟦<Spot as Serialize>⟧.is_value (⟦<Spot as Deserialize<'de, R>>⟧.reads s.human R.lends)
        (λ x37 h37. (spot_rounds.round-law R.row R.ReadSlice.own (given 0) R.Source (given 0) (λ e. cc) s x37 h37)) v.marks.items fits.21))
        (fields_cons s (codes "length") _ _ _ (λ j. ⟦<u64 as Deserialize<'de, R>>⟧.reads s.human R.lends j v.length)
        (Absent ⟦<u64 as Deserialize<'de, R>>⟧.absent v.length) _ (unsigned_row_64 s v.length fits.22)
        (fields_cons s (codes "beam") _ _ _ (λ j. ⟦<u8 as Deserialize<'de, R>>⟧.reads s.human R.lends j v.beam)
        (Absent ⟦<u8 as Deserialize<'de, R>>⟧.absent v.beam) _ (byte_row s v.beam fits.23)
        (fields_cons s (codes "stores") _ _ _ (λ j. ⟦<BTreeMap<u16, String> as Deserialize<'de, R>>⟧.reads s.human R.lends j v.stores)
        (Absent ⟦<BTreeMap<u16, String> as Deserialize<'de, R>>⟧.absent v.stores) _
        (map_row s (λ x. ⟦<u16 as Serialize>⟧.data_of x s.human) (λ x. ⟦<String as Serialize>⟧.data_of x s.human) ⟦<u16 as Serialize>⟧.is_value
        ⟦<String as Serialize>⟧.is_value (⟦<u16 as Deserialize<'de, R>>⟧.reads s.human R.lends) (⟦<String as Deserialize<'de, R>>⟧.reads s.human R.lends)
        (λ x38 h38. (unsigned_row_16 s x38 h38)) (λ x39 h39. (string_row s (string_bytes x39))) (Prim.search (comparing, rules)) v.stores.entries fits.24.1
        fits.24.0) (fields_cons s (codes "sounding") _ _ _ (λ j. ⟦<Option<i64> as Deserialize<'de, R>>⟧.reads s.human R.lends j v.sounding)
        (Absent ⟦<Option<i64> as Deserialize<'de, R>>⟧.absent v.sounding) _
        (option_row s (λ x. ⟦<i64 as Serialize>⟧.data_of x s.human) ⟦<i64 as Serialize>⟧.is_value (⟦<i64 as Deserialize<'de, R>>⟧.reads s.human R.lends)
        (λ x41. whole_other s x41) (λ x40 h40. (signed_row_64 s x40 h40)) v.sounding fits.25)
        (fields_cons s (codes "hatches") _ _ _ (λ j. ⟦<[bool; 2] as Deserialize<'de, R>>⟧.reads s.human R.lends j v.hatches)
        (Absent ⟦<[bool; 2] as Deserialize<'de, R>>⟧.absent v.hatches) _
        (tuple_row s _ (Exactly 2 (⟦<bool as Deserialize<'de, R>>⟧.reads s.human R.lends) v.hatches)
        (rows_map s _ _ _ (λ ms each. (fits.26.0, each)) (each_row s (λ x. ⟦<bool as Serialize>⟧.data_of x s.human) ⟦<bool as Serialize>⟧.is_value
        (⟦<bool as Deserialize<'de, R>>⟧.reads s.human R.lends) (λ x42 h42. (truth_row s x42)) v.hatches fits.26.1)))
        (fields_cons s (codes "legs") _ _ _ (λ j. ⟦<Vec<Course> as Deserialize<'de, R>>⟧.reads s.human R.lends j v.legs)
        (Absent ⟦<Vec<Course> as Deserialize<'de, R>>⟧.absent v.legs) _
        (slice_row s _ (λ ms. ReadsEach (⟦<Course as Deserialize<'de, R>>⟧.reads s.human R.lends) ms v.legs.items)
        (each_row s (λ x. ⟦<Course as Serialize>⟧.data_of x s.human) ⟦<Course as Serialize>⟧.is_value
        (⟦<Course as Deserialize<'de, R>>⟧.reads s.human R.lends)
        (λ x43 h43. (course_rounds.round-law R.row R.ReadSlice.own (given 0) R.Source (given 0) (λ e. cc) s x43 h43)) v.legs.items fits.27))
        (fields_cons s (codes "port") _ _ _ (λ j. ⟦<(u8, String) as Deserialize<'de, R>>⟧.reads s.human R.lends j v.port)
        (Absent ⟦<(u8, String) as Deserialize<'de, R>>⟧.absent v.port) _
        (tuple_row s _ _ (rows_cons s _ _ (λ j. ⟦<u8 as Deserialize<'de, R>>⟧.reads s.human R.lends j v.port.0) _ (byte_row s v.port.0 fits.28.0)
        (rows_cons s _ _ (λ j. ⟦<String as Deserialize<'de, R>>⟧.reads s.human R.lends j v.port.1) _ (string_row s (string_bytes v.port.1)) (rows_none s))))
        (fields_cons s (codes "log") _ _ _ (λ j. ⟦<Vec<ByteBuf> as Deserialize<'de, R>>⟧.reads s.human R.lends j v.log)
        (Absent ⟦<Vec<ByteBuf> as Deserialize<'de, R>>⟧.absent v.log) _
        (slice_row s _ (λ ms. ReadsEach (⟦<ByteBuf as Deserialize<'de, R>>⟧.reads s.human R.lends) ms v.log.items)
        (each_row s (λ x. ⟦<ByteBuf as Serialize>⟧.data_of x s.human) ⟦<ByteBuf as Serialize>⟧.is_value
        (⟦<ByteBuf as Deserialize<'de, R>>⟧.reads s.human R.lends) (λ x44 h44. (buffer_row s (buffer_bytes x44))) v.log.items fits.29))
        (fields_cons s (codes "crane") _ _ _ (λ j. ⟦<Option<char> as Deserialize<'de, R>>⟧.reads s.human R.lends j v.crane)
        (Absent ⟦<Option<char> as Deserialize<'de, R>>⟧.absent v.crane) _
        (option_row s (λ x. ⟦<char as Serialize>⟧.data_of x s.human) ⟦<char as Serialize>⟧.is_value (⟦<char as Deserialize<'de, R>>⟧.reads s.human R.lends)
        (λ x46. char_other s x46) (λ x45 h45. (char_row s x45 h45)) v.crane fits.30)
        (fields_cons s (codes "surveyor") _ _ _ (λ j. ⟦<String as Deserialize<'de, R>>⟧.reads s.human R.lends j v.surveyor)
        (Absent ⟦<String as Deserialize<'de, R>>⟧.absent v.surveyor) _ (string_row s (string_bytes v.surveyor))
        (fields_none s))))))))))))))))))))))))))))))))) };

    ghost same = { λ v w. ⟦<String as RoundTrip<'de, R>>⟧.same v.ship w.ship × ⟦<Course as RoundTrip<'de, R>>⟧.same v.course w.course
        × ⟦<Vec<(u8, String)> as RoundTrip<'de, R>>⟧.same v.crew w.crew × ⟦<u128 as RoundTrip<'de, R>>⟧.same v.seal w.seal
        × ⟦<() as RoundTrip<'de, R>>⟧.same v.nothing w.nothing × ⟦<char as RoundTrip<'de, R>>⟧.same v.flag w.flag
        × ⟦<Spot as RoundTrip<'de, R>>⟧.same v.spot w.spot × ⟦<BTreeMap<String, u64> as RoundTrip<'de, R>>⟧.same v.cargo w.cargo
        × ⟦<[u16; 3] as RoundTrip<'de, R>>⟧.same v.depths w.depths × ⟦<Option<Spot> as RoundTrip<'de, R>>⟧.same v.last w.last
        × ⟦<ByteBuf as RoundTrip<'de, R>>⟧.same v.chart w.chart × ⟦<(i64, Option<bool>) as RoundTrip<'de, R>>⟧.same v.pair w.pair
        × ⟦<Option<String> as RoundTrip<'de, R>>⟧.same v.owner w.owner × ⟦<u32 as RoundTrip<'de, R>>⟧.same v.tonnage w.tonnage
        × ⟦<F64Bits as RoundTrip<'de, R>>⟧.same v.draught w.draught × ⟦<Vec<String> as RoundTrip<'de, R>>⟧.same v.ports w.ports
        × ⟦<i16 as RoundTrip<'de, R>>⟧.same v.heading w.heading × ⟦<i128 as RoundTrip<'de, R>>⟧.same v.debt w.debt
        × ⟦<BTreeSet<u16> as RoundTrip<'de, R>>⟧.same v.berths w.berths × ⟦<bool as RoundTrip<'de, R>>⟧.same v.done w.done
        × ⟦<Option<Course> as RoundTrip<'de, R>>⟧.same v.next w.next × ⟦<Vec<Spot> as RoundTrip<'de, R>>⟧.same v.marks w.marks
        × ⟦<u64 as RoundTrip<'de, R>>⟧.same v.length w.length × ⟦<u8 as RoundTrip<'de, R>>⟧.same v.beam w.beam
        × ⟦<BTreeMap<u16, String> as RoundTrip<'de, R>>⟧.same v.stores w.stores × ⟦<Option<i64> as RoundTrip<'de, R>>⟧.same v.sounding w.sounding
        × ⟦<[bool; 2] as RoundTrip<'de, R>>⟧.same v.hatches w.hatches × ⟦<Vec<Course> as RoundTrip<'de, R>>⟧.same v.legs w.legs
        × ⟦<(u8, String) as RoundTrip<'de, R>>⟧.same v.port w.port × ⟦<Vec<ByteBuf> as RoundTrip<'de, R>>⟧.same v.log w.log
        × ⟦<Option<char> as RoundTrip<'de, R>>⟧.same v.crane w.crane × ⟦<String as RoundTrip<'de, R>>⟧.same v.surveyor w.surveyor };

    ghost alike = { λ human v w h i. structure_of ((codes "ship", (text_alike (string_bytes v.ship) (string_bytes w.ship) h.0 i))
        ∷ ((codes "course", (course_rounds.alike-law R.row R.ReadSlice.own (given 0) R.Source (given 0) human v.course w.course h.1 i))
        ∷ ((
          codes "crew",
          (slice_alike ⟦<(u8, String) as RoundTrip<'de, R>>⟧.same (λ x. ⟦<(u8, String) as Serialize>⟧.data_of x human)
              (λ x25 yx25 h25 i. (tuple_of ((⟦<u8 as Serialize>⟧.data_of (h25.0 i) human)
              ∷ ((text_alike (string_bytes x25.1) (string_bytes yx25.1) h25.1 i) ∷ [])))) v.crew.items w.crew.items h.2 i),
        )
        ∷ ((codes "seal", (⟦<u128 as Serialize>⟧.data_of (h.3 i) human))
        ∷ ((codes "nothing", (unit_alike i)) ∷ ((codes "flag", (⟦<char as Serialize>⟧.data_of (h.5 i) human))
        ∷ ((codes "spot", (spot_rounds.alike-law R.row R.ReadSlice.own (given 0) R.Source (given 0) human v.spot w.spot h.6 i))
        ∷ ((
          codes "cargo",
          (mapping_alike ⟦<String as RoundTrip<'de, R>>⟧.same (λ x. ⟦<String as Serialize>⟧.data_of x human)
              (λ x26 yx26 h26 i. (text_alike (string_bytes x26) (string_bytes yx26) h26 i)) ⟦<u64 as RoundTrip<'de, R>>⟧.same
              (λ x. ⟦<u64 as Serialize>⟧.data_of x human) (λ x27 yx27 h27 i. (⟦<u64 as Serialize>⟧.data_of (h27 i) human)) v.cargo.entries w.cargo.entries h.7 i),
        )
        ∷ ((
          codes "depths",
          (array_alike ⟦<u16 as RoundTrip<'de, R>>⟧.same (λ x. ⟦<u16 as Serialize>⟧.data_of x human)
              (λ x28 yx28 h28 i. (⟦<u16 as Serialize>⟧.data_of (h28 i) human)) v.depths w.depths h.8 i),
        )
        ∷ ((
          codes "last",
          (option_alike ⟦<Spot as RoundTrip<'de, R>>⟧.same (λ x. ⟦<Spot as Serialize>⟧.data_of x human)
              (λ x29 yx29 h29 i. (spot_rounds.alike-law R.row R.ReadSlice.own (given 0) R.Source (given 0) human x29 yx29 h29 i)) v.last w.last h.9 i),
        )
        ∷ ((codes "chart", (bytes_alike (buffer_bytes v.chart) (buffer_bytes w.chart) h.10 i))
        ∷ ((
          codes "pair",
          (tuple_of ((⟦<i64 as Serialize>⟧.data_of (h.11.0 i) human)
              ∷ ((option_alike ⟦<bool as RoundTrip<'de, R>>⟧.same (λ x. ⟦<bool as Serialize>⟧.data_of x human)
              (λ x30 yx30 h30 i. (⟦<bool as Serialize>⟧.data_of (h30 i) human)) v.pair.1 w.pair.1 h.11.1 i) ∷ []))),
        )
        ∷ ((
          codes "owner",
          (option_alike ⟦<String as RoundTrip<'de, R>>⟧.same (λ x. ⟦<String as Serialize>⟧.data_of x human)
              (λ x31 yx31 h31 i. (text_alike (string_bytes x31) (string_bytes yx31) h31 i)) v.owner w.owner h.12 i),
        )
        ∷ ((codes "tonnage", (⟦<u32 as Serialize>⟧.data_of (h.13 i) human))
        ∷ ((codes "draught", (float64_alike v.draught.0 w.draught.0 h.14 i))
        ∷ ((
          codes "ports",
          (slice_alike ⟦<String as RoundTrip<'de, R>>⟧.same (λ x. ⟦<String as Serialize>⟧.data_of x human)
              (λ x32 yx32 h32 i. (text_alike (string_bytes x32) (string_bytes yx32) h32 i)) v.ports.items w.ports.items h.15 i),
        )
        ∷ ((codes "heading", (⟦<i16 as Serialize>⟧.data_of (h.16 i) human))
        ∷ ((codes "debt", (⟦<i128 as Serialize>⟧.data_of (h.17 i) human))
        ∷ ((
          codes "berths",
          (sequence_alike ⟦<u16 as RoundTrip<'de, R>>⟧.same (λ x. ⟦<u16 as Serialize>⟧.data_of x human)
              (λ x33 yx33 h33 i. (⟦<u16 as Serialize>⟧.data_of (h33 i) human)) v.berths.keys w.berths.keys h.18 i),
        )
        ∷ ((codes "done", (⟦<bool as Serialize>⟧.data_of (h.19 i) human))
        ∷ ((
          codes "next",
          (option_alike ⟦<Course as RoundTrip<'de, R>>⟧.same (λ x. ⟦<Course as Serialize>⟧.data_of x human)
              (λ x34 yx34 h34 i. (course_rounds.alike-law R.row R.ReadSlice.own (given 0) R.Source (given 0) human x34 yx34 h34 i)) v.next w.next h.20 i),
        )
        ∷ ((
          codes "marks",
          (slice_alike ⟦<Spot as RoundTrip<'de, R>>⟧.same (λ x. ⟦<Spot as Serialize>⟧.data_of x human)
              (λ x35 yx35 h35 i. (spot_rounds.alike-law R.row R.ReadSlice.own (given 0) R.Source (given 0) human x35 yx35 h35 i)) v.marks.items w.marks.items h.21
              i),
        ) ∷ ((codes "length", (⟦<u64 as Serialize>⟧.data_of (h.22 i) human))
        ∷ ((codes "beam", (⟦<u8 as Serialize>⟧.data_of (h.23 i) human))
        ∷ ((
          codes "stores",
          (mapping_alike ⟦<u16 as RoundTrip<'de, R>>⟧.same (λ x. ⟦<u16 as Serialize>⟧.data_of x human)
              (λ x36 yx36 h36 i. (⟦<u16 as Serialize>⟧.data_of (h36 i) human)) ⟦<String as RoundTrip<'de, R>>⟧.same (λ x. ⟦<String as Serialize>⟧.data_of x human)
              (λ x37 yx37 h37 i. (text_alike (string_bytes x37) (string_bytes yx37) h37 i)) v.stores.entries w.stores.entries h.24 i),
        )
        ∷ ((
          codes "sounding",
          (option_alike ⟦<i64 as RoundTrip<'de, R>>⟧.same (λ x. ⟦<i64 as Serialize>⟧.data_of x human)
              (λ x38 yx38 h38 i. (⟦<i64 as Serialize>⟧.data_of (h38 i) human)) v.sounding w.sounding h.25 i),
        )
        ∷ ((
          codes "hatches",
          (array_alike ⟦<bool as RoundTrip<'de, R>>⟧.same (λ x. ⟦<bool as Serialize>⟧.data_of x human)
              (λ x39 yx39 h39 i. (⟦<bool as Serialize>⟧.data_of (h39 i) human)) v.hatches w.hatches h.26 i),
        )
        ∷ ((
          codes "legs",
          (slice_alike ⟦<Course as RoundTrip<'de, R>>⟧.same (λ x. ⟦<Course as Serialize>⟧.data_of x human)
              (λ x40 yx40 h40 i. (course_rounds.alike-law R.row R.ReadSlice.own (given 0) R.Source (given 0) human x40 yx40 h40 i)) v.legs.items w.legs.items h.27
              i),
        ) ∷ ((
          codes "port",
          (tuple_of ((⟦<u8 as Serialize>⟧.data_of (h.28.0 i) human)
              ∷ ((text_alike (string_bytes v.port.1) (string_bytes w.port.1) h.28.1 i) ∷ []))),
        )
        ∷ ((
          codes "log",
          (slice_alike ⟦<ByteBuf as RoundTrip<'de, R>>⟧.same (λ x. ⟦<ByteBuf as Serialize>⟧.data_of x human)
              (λ x41 yx41 h41 i. (bytes_alike (buffer_bytes x41) (buffer_bytes yx41) h41 i)) v.log.items w.log.items h.29 i),
        )
        ∷ ((
          codes "crane",
          (option_alike ⟦<char as RoundTrip<'de, R>>⟧.same (λ x. ⟦<char as Serialize>⟧.data_of x human)
              (λ x42 yx42 h42 i. (⟦<char as Serialize>⟧.data_of (h42 i) human)) v.crane w.crane h.30 i),
        )
        ∷ ((codes "surveyor", (text_alike (string_bytes v.surveyor) (string_bytes w.surveyor) h.31 i)) ∷ [])))))))))))))))))))))))))))))))) };

    ghost only = { λ s v fits. lowers_then s _ _ (λ m. (w : _) → (⟦<Survey as Deserialize<'de, R>>⟧.reads s.human R.lends) m w
        → ⟦<String as RoundTrip<'de, R>>⟧.same v.ship w.ship × ⟦<Course as RoundTrip<'de, R>>⟧.same v.course w.course
        × ⟦<Vec<(u8, String)> as RoundTrip<'de, R>>⟧.same v.crew w.crew × ⟦<u128 as RoundTrip<'de, R>>⟧.same v.seal w.seal
        × ⟦<() as RoundTrip<'de, R>>⟧.same v.nothing w.nothing × ⟦<char as RoundTrip<'de, R>>⟧.same v.flag w.flag
        × ⟦<Spot as RoundTrip<'de, R>>⟧.same v.spot w.spot × ⟦<BTreeMap<String, u64> as RoundTrip<'de, R>>⟧.same v.cargo w.cargo
        × ⟦<[u16; 3] as RoundTrip<'de, R>>⟧.same v.depths w.depths × ⟦<Option<Spot> as RoundTrip<'de, R>>⟧.same v.last w.last
        × ⟦<ByteBuf as RoundTrip<'de, R>>⟧.same v.chart w.chart × ⟦<(i64, Option<bool>) as RoundTrip<'de, R>>⟧.same v.pair w.pair
        × ⟦<Option<String> as RoundTrip<'de, R>>⟧.same v.owner w.owner × ⟦<u32 as RoundTrip<'de, R>>⟧.same v.tonnage w.tonnage
        × ⟦<F64Bits as RoundTrip<'de, R>>⟧.same v.draught w.draught × ⟦<Vec<String> as RoundTrip<'de, R>>⟧.same v.ports w.ports
        × ⟦<i16 as RoundTrip<'de, R>>⟧.same v.heading w.heading × ⟦<i128 as RoundTrip<'de, R>>⟧.same v.debt w.debt
        × ⟦<BTreeSet<u16> as RoundTrip<'de, R>>⟧.same v.berths w.berths × ⟦<bool as RoundTrip<'de, R>>⟧.same v.done w.done
        × ⟦<Option<Course> as RoundTrip<'de, R>>⟧.same v.next w.next × ⟦<Vec<Spot> as RoundTrip<'de, R>>⟧.same v.marks w.marks
        × ⟦<u64 as RoundTrip<'de, R>>⟧.same v.length w.length × ⟦<u8 as RoundTrip<'de, R>>⟧.same v.beam w.beam
        × ⟦<BTreeMap<u16, String> as RoundTrip<'de, R>>⟧.same v.stores w.stores × ⟦<Option<i64> as RoundTrip<'de, R>>⟧.same v.sounding w.sounding
        × ⟦<[bool; 2] as RoundTrip<'de, R>>⟧.same v.hatches w.hatches × ⟦<Vec<Course> as RoundTrip<'de, R>>⟧.same v.legs w.legs
        × ⟦<(u8, String) as RoundTrip<'de, R>>⟧.same v.port w.port × ⟦<Vec<ByteBuf> as RoundTrip<'de, R>>⟧.same v.log w.log
        × ⟦<Option<char> as RoundTrip<'de, R>>⟧.same v.crane w.crane × ⟦<String as RoundTrip<'de, R>>⟧.same v.surveyor w.surveyor)
        (structure_row s (codes "ship" ∷ (codes "course" ∷
        (codes "crew" ∷ (codes "seal" ∷ (codes "nothing" ∷
        (codes "flag" ∷ (codes "spot" ∷ (codes "cargo" ∷ (codes "depths"
        ∷ (codes "last" ∷ (codes "chart" ∷ (codes "pair" ∷
        (codes "owner" ∷ (codes "tonnage" ∷ (codes "draught"
        ∷ (codes "ports" ∷ (codes "heading" ∷ (codes "debt"
        ∷ (codes "berths" ∷ (codes "done" ∷ (codes "next" ∷
        (codes "marks" ∷ (codes "length" ∷ (codes "beam" ∷
        (codes "stores" ∷ (codes "sounding" ∷ (codes "hatches"
        ∷ (codes "legs" ∷ (codes "port" ∷ (codes "log" ∷ (codes "crane" ∷ (codes "surveyor" ∷ [])))))))))))))))))))))))))))))))) _ _ refl
        (fields_cons s (codes "ship") _ _ _ (λ j. Only (⟦<String as Deserialize<'de, R>>⟧.reads s.human R.lends) ⟦<String as RoundTrip<'de, R>>⟧.same j
        v.ship) ⊥ _ (string_only s (λ w. string_bytes w) (string_bytes v.ship))
        (fields_cons s (codes "course") _ _ _ (λ j. Only (⟦<Course as Deserialize<'de, R>>⟧.reads s.human R.lends) ⟦<Course as RoundTrip<'de, R>>⟧.same j
        v.course) ⊥ _ (course_rounds.only-law R.row R.ReadSlice.own (given 0) R.Source (given 0) s v.course fits.1)
        (fields_cons s (codes "crew") _ _ _ (λ j. Only (⟦<Vec<(u8, String)> as Deserialize<'de, R>>⟧.reads s.human R.lends)
        ⟦<Vec<(u8, String)> as RoundTrip<'de, R>>⟧.same j v.crew) ⊥ _
        (list_only s _ (λ w. w.items) (⟦<(u8, String) as Deserialize<'de, R>>⟧.reads s.human R.lends) ⟦<(u8, String) as RoundTrip<'de, R>>⟧.same
        v.crew.items (slice_row s _ (λ ms. ReadsEach (Only (⟦<(u8, String) as Deserialize<'de, R>>⟧.reads s.human R.lends)
        ⟦<(u8, String) as RoundTrip<'de, R>>⟧.same) ms v.crew.items)
        (each_row s (λ x. ⟦<(u8, String) as Serialize>⟧.data_of x s.human) ⟦<(u8, String) as Serialize>⟧.is_value
        (Only (⟦<(u8, String) as Deserialize<'de, R>>⟧.reads s.human R.lends) ⟦<(u8, String) as RoundTrip<'de, R>>⟧.same)
        (λ x1 h1. (lowers_then s _ _ (λ j. Only (⟦<(u8, String) as Deserialize<'de, R>>⟧.reads s.human R.lends) ⟦<(u8, String) as RoundTrip<'de, R>>⟧.same j
        x1) (tuple_row s _ _ (rows_cons s _ _ (λ j. Only (⟦<u8 as Deserialize<'de, R>>⟧.reads s.human R.lends) ⟦<u8 as RoundTrip<'de, R>>⟧.same j x1.0) _
        (byte_only s x1.0) (rows_cons s _ _ (λ j. Only (⟦<String as Deserialize<'de, R>>⟧.reads s.human R.lends) ⟦<String as RoundTrip<'de, R>>⟧.same j
        x1.1) _ (string_only s (λ w. string_bytes w) (string_bytes x1.1)) (rows_none s))))
        (λ m q w r. row_both _ _ _ m q r (item_only (⟦<u8 as Deserialize<'de, R>>⟧.reads s.human R.lends) ⟦<u8 as RoundTrip<'de, R>>⟧.same x1.0 w.0 _ _ _
        (last_only (⟦<String as Deserialize<'de, R>>⟧.reads s.human R.lends) ⟦<String as RoundTrip<'de, R>>⟧.same x1.1 w.1))))) v.crew.items fits.2)))
        (fields_cons s (codes "seal") _ _ _ (λ j. Only (⟦<u128 as Deserialize<'de, R>>⟧.reads s.human R.lends) ⟦<u128 as RoundTrip<'de, R>>⟧.same j v.seal)
        ⊥ _ (unsigned128_only s v.seal fits.3) (fields_cons s (codes "nothing") _ _ _
        (λ j. Only (⟦<() as Deserialize<'de, R>>⟧.reads s.human R.lends) ⟦<() as RoundTrip<'de, R>>⟧.same j v.nothing) ⊥ _ (unit_only s)
        (fields_cons s (codes "flag") _ _ _ (λ j. Only (⟦<char as Deserialize<'de, R>>⟧.reads s.human R.lends) ⟦<char as RoundTrip<'de, R>>⟧.same j v.flag)
        ⊥ _ (char_only s v.flag fits.5) (fields_cons s (codes "spot") _ _ _
        (λ j. Only (⟦<Spot as Deserialize<'de, R>>⟧.reads s.human R.lends) ⟦<Spot as RoundTrip<'de, R>>⟧.same j v.spot) ⊥ _
        (spot_rounds.only-law R.row R.ReadSlice.own (given 0) R.Source (given 0) s v.spot fits.6)
        (fields_cons s (codes "cargo") _ _ _ (λ j. Only (⟦<BTreeMap<String, u64> as Deserialize<'de, R>>⟧.reads s.human R.lends)
        ⟦<BTreeMap<String, u64> as RoundTrip<'de, R>>⟧.same j v.cargo) ⊥ _
        (entries_only (⟦<String as Deserialize<'de, R>>⟧.reads s.human R.lends) (⟦<u64 as Deserialize<'de, R>>⟧.reads s.human R.lends)
        ⟦<String as RoundTrip<'de, R>>⟧.same ⟦<u64 as RoundTrip<'de, R>>⟧.same s _ (λ w. w.entries) {cmp = ⟦<String as Ord>⟧.cmp}
        (on_total (λ x. string_bytes x) nat_list_cmp_total) (λ x y e. tied (slice_cmp nat_cmp) nat_list_cmp_total (string_bytes x) (string_bytes y) e)
        v.cargo.entries fits.7.1 (pairs_row s (λ x. ⟦<String as Serialize>⟧.data_of x s.human) (λ x. ⟦<u64 as Serialize>⟧.data_of x s.human)
        ⟦<String as Serialize>⟧.is_value ⟦<u64 as Serialize>⟧.is_value
        (Only (⟦<String as Deserialize<'de, R>>⟧.reads s.human R.lends) ⟦<String as RoundTrip<'de, R>>⟧.same)
        (Only (⟦<u64 as Deserialize<'de, R>>⟧.reads s.human R.lends) ⟦<u64 as RoundTrip<'de, R>>⟧.same)
        (λ x2 h2. (string_only s (λ w. string_bytes w) (string_bytes x2))) (λ x3 h3. (unsigned_only s 18446744073709551615 x3)) v.cargo.entries fits.7.0))
        (fields_cons s (codes "depths") _ _ _ (λ j. Only (⟦<[u16; 3] as Deserialize<'de, R>>⟧.reads s.human R.lends) ⟦<[u16; 3] as RoundTrip<'de, R>>⟧.same
        j v.depths) ⊥ _ (array_only s _ 3 (⟦<u16 as Deserialize<'de, R>>⟧.reads s.human R.lends) ⟦<u16 as RoundTrip<'de, R>>⟧.same v.depths
        (tuple_row s _ (λ ms. ReadsEach (Only (⟦<u16 as Deserialize<'de, R>>⟧.reads s.human R.lends) ⟦<u16 as RoundTrip<'de, R>>⟧.same) ms v.depths)
        (each_row s (λ x. ⟦<u16 as Serialize>⟧.data_of x s.human) ⟦<u16 as Serialize>⟧.is_value
        (Only (⟦<u16 as Deserialize<'de, R>>⟧.reads s.human R.lends) ⟦<u16 as RoundTrip<'de, R>>⟧.same) (λ x4 h4. (unsigned_only s 65535 x4)) v.depths
        fits.8.1))) (fields_cons s (codes "last") _ _ _ (λ j. Only (⟦<Option<Spot> as Deserialize<'de, R>>⟧.reads s.human R.lends)
        ⟦<Option<Spot> as RoundTrip<'de, R>>⟧.same j v.last) ⊥ _
        (option_only s _ (⟦<Spot as Deserialize<'de, R>>⟧.reads s.human R.lends) ⟦<Spot as RoundTrip<'de, R>>⟧.same v.last
        (option_row s (λ x. ⟦<Spot as Serialize>⟧.data_of x s.human) ⟦<Spot as Serialize>⟧.is_value
        (Only (⟦<Spot as Deserialize<'de, R>>⟧.reads s.human R.lends) ⟦<Spot as RoundTrip<'de, R>>⟧.same) (λ x6. spot_other.never_nil-law s x6)
        (λ x5 h5. (spot_rounds.only-law R.row R.ReadSlice.own (given 0) R.Source (given 0) s x5 h5)) v.last fits.9))
        (fields_cons s (codes "chart") _ _ _ (λ j. Only (⟦<ByteBuf as Deserialize<'de, R>>⟧.reads s.human R.lends) ⟦<ByteBuf as RoundTrip<'de, R>>⟧.same j
        v.chart) ⊥ _ (buffer_only s (λ w. buffer_bytes w) (buffer_bytes v.chart))
        (fields_cons s (codes "pair") _ _ _ (λ j. Only (⟦<(i64, Option<bool>) as Deserialize<'de, R>>⟧.reads s.human R.lends)
        ⟦<(i64, Option<bool>) as RoundTrip<'de, R>>⟧.same j v.pair) ⊥ _
        (lowers_then s _ _ (λ j. Only (⟦<(i64, Option<bool>) as Deserialize<'de, R>>⟧.reads s.human R.lends)
        ⟦<(i64, Option<bool>) as RoundTrip<'de, R>>⟧.same j v.pair)
        (tuple_row s _ _ (rows_cons s _ _ (λ j. Only (⟦<i64 as Deserialize<'de, R>>⟧.reads s.human R.lends) ⟦<i64 as RoundTrip<'de, R>>⟧.same j v.pair.0) _
        (signed_only s (negsuc 9223372036854775807) (pos 9223372036854775807) v.pair.0)
        (rows_cons s _ _ (λ j. Only (⟦<Option<bool> as Deserialize<'de, R>>⟧.reads s.human R.lends) ⟦<Option<bool> as RoundTrip<'de, R>>⟧.same j v.pair.1) _
        (option_only s _ (⟦<bool as Deserialize<'de, R>>⟧.reads s.human R.lends) ⟦<bool as RoundTrip<'de, R>>⟧.same v.pair.1
        (option_row s (λ x. ⟦<bool as Serialize>⟧.data_of x s.human) ⟦<bool as Serialize>⟧.is_value
        (Only (⟦<bool as Deserialize<'de, R>>⟧.reads s.human R.lends) ⟦<bool as RoundTrip<'de, R>>⟧.same) (λ x8. truth_other s x8)
        (λ x7 h7. (truth_only s x7)) v.pair.1 fits.11.1)) (rows_none s))))
        (λ m q w r. row_both _ _ _ m q r (item_only (⟦<i64 as Deserialize<'de, R>>⟧.reads s.human R.lends) ⟦<i64 as RoundTrip<'de, R>>⟧.same v.pair.0 w.0 _
        _ _ (last_only (⟦<Option<bool> as Deserialize<'de, R>>⟧.reads s.human R.lends) ⟦<Option<bool> as RoundTrip<'de, R>>⟧.same v.pair.1 w.1))))
        (fields_cons s (codes "owner") _ _ _ (λ j. Only (⟦<Option<String> as Deserialize<'de, R>>⟧.reads s.human R.lends)
        ⟦<Option<String> as RoundTrip<'de, R>>⟧.same j v.owner) ⊥ _
        (option_only s _ (⟦<String as Deserialize<'de, R>>⟧.reads s.human R.lends) ⟦<String as RoundTrip<'de, R>>⟧.same v.owner
        (option_row s (λ x. ⟦<String as Serialize>⟧.data_of x s.human) ⟦<String as Serialize>⟧.is_value
        (Only (⟦<String as Deserialize<'de, R>>⟧.reads s.human R.lends) ⟦<String as RoundTrip<'de, R>>⟧.same) (λ x10. text_other s (string_bytes x10))
        (λ x9 h9. (string_only s (λ w. string_bytes w) (string_bytes x9))) v.owner fits.12))
        (fields_cons s (codes "tonnage") _ _ _ (λ j. Only (⟦<u32 as Deserialize<'de, R>>⟧.reads s.human R.lends) ⟦<u32 as RoundTrip<'de, R>>⟧.same j
        v.tonnage) ⊥ _ (unsigned_only s 4294967295 v.tonnage)
        (fields_cons s (codes "draught") _ _ _ (λ j. Only (⟦<F64Bits as Deserialize<'de, R>>⟧.reads s.human R.lends) ⟦<F64Bits as RoundTrip<'de, R>>⟧.same j
        v.draught) ⊥ _ (float64_only s (λ w. w.0) v.draught.0)
        (fields_cons s (codes "ports") _ _ _ (λ j. Only (⟦<Vec<String> as Deserialize<'de, R>>⟧.reads s.human R.lends)
        ⟦<Vec<String> as RoundTrip<'de, R>>⟧.same j v.ports) ⊥ _
        (list_only s _ (λ w. w.items) (⟦<String as Deserialize<'de, R>>⟧.reads s.human R.lends) ⟦<String as RoundTrip<'de, R>>⟧.same v.ports.items
        (slice_row s _ (λ ms. ReadsEach (Only (⟦<String as Deserialize<'de, R>>⟧.reads s.human R.lends) ⟦<String as RoundTrip<'de, R>>⟧.same) ms
        v.ports.items) (each_row s (λ x. ⟦<String as Serialize>⟧.data_of x s.human) ⟦<String as Serialize>⟧.is_value
        (Only (⟦<String as Deserialize<'de, R>>⟧.reads s.human R.lends) ⟦<String as RoundTrip<'de, R>>⟧.same)
        (λ x11 h11. (string_only s (λ w. string_bytes w) (string_bytes x11))) v.ports.items fits.15)))
        (fields_cons s (codes "heading") _ _ _ (λ j. Only (⟦<i16 as Deserialize<'de, R>>⟧.reads s.human R.lends) ⟦<i16 as RoundTrip<'de, R>>⟧.same j
        v.heading) ⊥ _ (signed_only s (negsuc 32767) (pos 32767) v.heading)
        (fields_cons s (codes "debt") _ _ _ (λ j. Only (⟦<i128 as Deserialize<'de, R>>⟧.reads s.human R.lends) ⟦<i128 as RoundTrip<'de, R>>⟧.same j v.debt)
        ⊥ _ (signed128_only s v.debt fits.17) (fields_cons s (codes "berths") _ _ _
        (λ j. Only (⟦<BTreeSet<u16> as Deserialize<'de, R>>⟧.reads s.human R.lends) ⟦<BTreeSet<u16> as RoundTrip<'de, R>>⟧.same j v.berths) ⊥ _
        (set_only s _ (λ w. w.keys) {cmp = ⟦<u16 as Ord>⟧.cmp} (Prim.search (comparing, rules)) (⟦<u16 as Deserialize<'de, R>>⟧.reads s.human R.lends)
        ⟦<u16 as RoundTrip<'de, R>>⟧.same (λ x y e. tied ⟦<u16 as Ord>⟧.cmp (Prim.search (comparing, rules)) x y e) v.berths.keys fits.18.1
        (sequence_row s _ (λ ms. ReadsEach (Only (⟦<u16 as Deserialize<'de, R>>⟧.reads s.human R.lends) ⟦<u16 as RoundTrip<'de, R>>⟧.same) ms v.berths.keys)
        (each_row s (λ x. ⟦<u16 as Serialize>⟧.data_of x s.human) ⟦<u16 as Serialize>⟧.is_value
        (Only (⟦<u16 as Deserialize<'de, R>>⟧.reads s.human R.lends) ⟦<u16 as RoundTrip<'de, R>>⟧.same) (λ x12 h12. (unsigned_only s 65535 x12))
        v.berths.keys fits.18.0))) (fields_cons s (codes "done") _ _ _
        (λ j. Only (⟦<bool as Deserialize<'de, R>>⟧.reads s.human R.lends) ⟦<bool as RoundTrip<'de, R>>⟧.same j v.done) ⊥ _ (truth_only s v.done)
        (fields_cons s (codes "next") _ _ _ (λ j. Only (⟦<Option<Course> as Deserialize<'de, R>>⟧.reads s.human R.lends)
        ⟦<Option<Course> as RoundTrip<'de, R>>⟧.same j v.next) ⊥ _
        (option_only s _ (⟦<Course as Deserialize<'de, R>>⟧.reads s.human R.lends) ⟦<Course as RoundTrip<'de, R>>⟧.same v.next
        (option_row s (λ x. ⟦<Course as Serialize>⟧.data_of x s.human) ⟦<Course as Serialize>⟧.is_value
        (Only (⟦<Course as Deserialize<'de, R>>⟧.reads s.human R.lends) ⟦<Course as RoundTrip<'de, R>>⟧.same) (λ x14. course_other.never_nil-law s x14)
        (λ x13 h13. (course_rounds.only-law R.row R.ReadSlice.own (given 0) R.Source (given 0) s x13 h13)) v.next fits.20))
        (fields_cons s (codes "marks") _ _ _ (λ j. Only (⟦<Vec<Spot> as Deserialize<'de, R>>⟧.reads s.human R.lends) ⟦<Vec<Spot> as RoundTrip<'de, R>>⟧.same
        j v.marks) ⊥ _ (list_only s _ (λ w. w.items) (⟦<Spot as Deserialize<'de, R>>⟧.reads s.human R.lends) ⟦<Spot as RoundTrip<'de, R>>⟧.same
        v.marks.items (slice_row s _ (λ ms. ReadsEach (Only (⟦<Spot as Deserialize<'de, R>>⟧.reads s.human R.lends) ⟦<Spot as RoundTrip<'de, R>>⟧.same) ms
        v.marks.items) (each_row s (λ x. ⟦<Spot as Serialize>⟧.data_of x s.human) ⟦<Spot as Serialize>⟧.is_value
        (Only (⟦<Spot as Deserialize<'de, R>>⟧.reads s.human R.lends) ⟦<Spot as RoundTrip<'de, R>>⟧.same)
        (λ x15 h15. (spot_rounds.only-law R.row R.ReadSlice.own (given 0) R.Source (given 0) s x15 h15)) v.marks.items fits.21)))
        (fields_cons s (codes "length") _ _ _ (λ j. Only (⟦<u64 as Deserialize<'de, R>>⟧.reads s.human R.lends) ⟦<u64 as RoundTrip<'de, R>>⟧.same j
        v.length) ⊥ _ (unsigned_only s 18446744073709551615 v.length)
        (fields_cons s (codes "beam") _ _ _ (λ j. Only (⟦<u8 as Deserialize<'de, R>>⟧.reads s.human R.lends) ⟦<u8 as RoundTrip<'de, R>>⟧.same j v.beam) ⊥ _
        (byte_only s v.beam) (fields_cons s (codes "stores") _ _ _
        (λ j. Only (⟦<BTreeMap<u16, String> as Deserialize<'de, R>>⟧.reads s.human R.lends) ⟦<BTreeMap<u16, String> as RoundTrip<'de, R>>⟧.same j v.stores)
        ⊥ _ (entries_only (⟦<u16 as Deserialize<'de, R>>⟧.reads s.human R.lends) (⟦<String as Deserialize<'de, R>>⟧.reads s.human R.lends)
        ⟦<u16 as RoundTrip<'de, R>>⟧.same ⟦<String as RoundTrip<'de, R>>⟧.same s _ (λ w. w.entries) {cmp = ⟦<u16 as Ord>⟧.cmp}
        (Prim.search (comparing, rules)) (λ x y e. tied ⟦<u16 as Ord>⟧.cmp (Prim.search (comparing, rules)) x y e) v.stores.entries fits.24.1
        (pairs_row s (λ x. ⟦<u16 as Serialize>⟧.data_of x s.human) (λ x. ⟦<String as Serialize>⟧.data_of x s.human) ⟦<u16 as Serialize>⟧.is_value
        ⟦<String as Serialize>⟧.is_value (Only (⟦<u16 as Deserialize<'de, R>>⟧.reads s.human R.lends) ⟦<u16 as RoundTrip<'de, R>>⟧.same)
        (Only (⟦<String as Deserialize<'de, R>>⟧.reads s.human R.lends) ⟦<String as RoundTrip<'de, R>>⟧.same) (λ x16 h16. (unsigned_only s 65535 x16))
        (λ x17 h17. (string_only s (λ w. string_bytes w) (string_bytes x17))) v.stores.entries fits.24.0))
        (fields_cons s (codes "sounding") _ _ _ (λ j. Only (⟦<Option<i64> as Deserialize<'de, R>>⟧.reads s.human R.lends)
        ⟦<Option<i64> as RoundTrip<'de, R>>⟧.same j v.sounding) ⊥ _
        (option_only s _ (⟦<i64 as Deserialize<'de, R>>⟧.reads s.human R.lends) ⟦<i64 as RoundTrip<'de, R>>⟧.same v.sounding
        (option_row s (λ x. ⟦<i64 as Serialize>⟧.data_of x s.human) ⟦<i64 as Serialize>⟧.is_value
        (Only (⟦<i64 as Deserialize<'de, R>>⟧.reads s.human R.lends) ⟦<i64 as RoundTrip<'de, R>>⟧.same) (λ x19. whole_other s x19)
        (λ x18 h18. (signed_only s (negsuc 9223372036854775807) (pos 9223372036854775807) x18)) v.sounding fits.25))
        (fields_cons s (codes "hatches") _ _ _ (λ j. Only (⟦<[bool; 2] as Deserialize<'de, R>>⟧.reads s.human R.lends)
        ⟦<[bool; 2] as RoundTrip<'de, R>>⟧.same j v.hatches) ⊥ _
        (array_only s _ 2 (⟦<bool as Deserialize<'de, R>>⟧.reads s.human R.lends) ⟦<bool as RoundTrip<'de, R>>⟧.same v.hatches
        (tuple_row s _ (λ ms. ReadsEach (Only (⟦<bool as Deserialize<'de, R>>⟧.reads s.human R.lends) ⟦<bool as RoundTrip<'de, R>>⟧.same) ms v.hatches)
        (each_row s (λ x. ⟦<bool as Serialize>⟧.data_of x s.human) ⟦<bool as Serialize>⟧.is_value
        (Only (⟦<bool as Deserialize<'de, R>>⟧.reads s.human R.lends) ⟦<bool as RoundTrip<'de, R>>⟧.same) (λ x20 h20. (truth_only s x20)) v.hatches
        fits.26.1))) (fields_cons s (codes "legs") _ _ _ (λ j. Only (⟦<Vec<Course> as Deserialize<'de, R>>⟧.reads s.human R.lends)
        ⟦<Vec<Course> as RoundTrip<'de, R>>⟧.same j v.legs) ⊥ _
        (list_only s _ (λ w. w.items) (⟦<Course as Deserialize<'de, R>>⟧.reads s.human R.lends) ⟦<Course as RoundTrip<'de, R>>⟧.same v.legs.items
        (slice_row s _ (λ ms. ReadsEach (Only (⟦<Course as Deserialize<'de, R>>⟧.reads s.human R.lends) ⟦<Course as RoundTrip<'de, R>>⟧.same) ms
        v.legs.items) (each_row s (λ x. ⟦<Course as Serialize>⟧.data_of x s.human) ⟦<Course as Serialize>⟧.is_value
        (Only (⟦<Course as Deserialize<'de, R>>⟧.reads s.human R.lends) ⟦<Course as RoundTrip<'de, R>>⟧.same)
        (λ x21 h21. (course_rounds.only-law R.row R.ReadSlice.own (given 0) R.Source (given 0) s x21 h21)) v.legs.items fits.27)))
        (fields_cons s (codes "port") _ _ _ (λ j. Only (⟦<(u8, String) as Deserialize<'de, R>>⟧.reads s.human R.lends)
        ⟦<(u8, String) as RoundTrip<'de, R>>⟧.same j v.port) ⊥ _
        (lowers_then s _ _ (λ j. Only (⟦<(u8, String) as Deserialize<'de, R>>⟧.reads s.human R.lends) ⟦<(u8, String) as RoundTrip<'de, R>>⟧.same j v.port)
        (tuple_row s _ _ (rows_cons s _ _ (λ j. Only (⟦<u8 as Deserialize<'de, R>>⟧.reads s.human R.lends) ⟦<u8 as RoundTrip<'de, R>>⟧.same j v.port.0) _
        (byte_only s v.port.0) (rows_cons s _ _ (λ j. Only (⟦<String as Deserialize<'de, R>>⟧.reads s.human R.lends) ⟦<String as RoundTrip<'de, R>>⟧.same j
        v.port.1) _ (string_only s (λ w. string_bytes w) (string_bytes v.port.1)) (rows_none s))))
        (λ m q w r. row_both _ _ _ m q r (item_only (⟦<u8 as Deserialize<'de, R>>⟧.reads s.human R.lends) ⟦<u8 as RoundTrip<'de, R>>⟧.same v.port.0 w.0 _ _
        _ (last_only (⟦<String as Deserialize<'de, R>>⟧.reads s.human R.lends) ⟦<String as RoundTrip<'de, R>>⟧.same v.port.1 w.1))))
        (fields_cons s (codes "log") _ _ _ (λ j. Only (⟦<Vec<ByteBuf> as Deserialize<'de, R>>⟧.reads s.human R.lends)
        ⟦<Vec<ByteBuf> as RoundTrip<'de, R>>⟧.same j v.log) ⊥ _
        (list_only s _ (λ w. w.items) (⟦<ByteBuf as Deserialize<'de, R>>⟧.reads s.human R.lends) ⟦<ByteBuf as RoundTrip<'de, R>>⟧.same v.log.items
        (slice_row s _ (λ ms. ReadsEach (Only (⟦<ByteBuf as Deserialize<'de, R>>⟧.reads s.human R.lends) ⟦<ByteBuf as RoundTrip<'de, R>>⟧.same) ms
        v.log.items) (each_row s (λ x. ⟦<ByteBuf as Serialize>⟧.data_of x s.human) ⟦<ByteBuf as Serialize>⟧.is_value
        (Only (⟦<ByteBuf as Deserialize<'de, R>>⟧.reads s.human R.lends) ⟦<ByteBuf as RoundTrip<'de, R>>⟧.same)
        (λ x22 h22. (buffer_only s (λ w. buffer_bytes w) (buffer_bytes x22))) v.log.items fits.29)))
        (fields_cons s (codes "crane") _ _ _ (λ j. Only (⟦<Option<char> as Deserialize<'de, R>>⟧.reads s.human R.lends)
        ⟦<Option<char> as RoundTrip<'de, R>>⟧.same j v.crane) ⊥ _
        (option_only s _ (⟦<char as Deserialize<'de, R>>⟧.reads s.human R.lends) ⟦<char as RoundTrip<'de, R>>⟧.same v.crane
        (option_row s (λ x. ⟦<char as Serialize>⟧.data_of x s.human) ⟦<char as Serialize>⟧.is_value
        (Only (⟦<char as Deserialize<'de, R>>⟧.reads s.human R.lends) ⟦<char as RoundTrip<'de, R>>⟧.same) (λ x24. char_other s x24)
        (λ x23 h23. (char_only s x23 h23)) v.crane fits.30))
        (fields_cons s (codes "surveyor") _ _ _ (λ j. Only (⟦<String as Deserialize<'de, R>>⟧.reads s.human R.lends) ⟦<String as RoundTrip<'de, R>>⟧.same j
        v.surveyor) ⊥ _ (string_only s (λ w. string_bytes w) (string_bytes v.surveyor)) (fields_none s))))))))))))))))))))))))))))))))))
        (λ m q w r. fields_both (codes "ship" ∷ (codes "course"
        ∷ (codes "crew" ∷ (codes "seal" ∷ (codes "nothing"
        ∷ (codes "flag" ∷ (codes "spot" ∷ (codes "cargo" ∷
        (codes "depths" ∷ (codes "last" ∷ (codes "chart" ∷
        (codes "pair" ∷ (codes "owner" ∷ (codes "tonnage" ∷
        (codes "draught" ∷ (codes "ports" ∷ (codes "heading"
        ∷ (codes "debt" ∷ (codes "berths" ∷ (codes "done" ∷
        (codes "next" ∷ (codes "marks" ∷ (codes "length" ∷
        (codes "beam" ∷ (codes "stores" ∷ (codes "sounding"
        ∷ (codes "hatches" ∷ (codes "legs" ∷ (codes "port" ∷ (codes "log" ∷ (codes "crane" ∷ (codes "surveyor" ∷ [])))))))))))))))))))))))))))))))) _ _ _ m
        q r (λ ks i j. let x = field_only (⟦<String as Deserialize<'de, R>>⟧.reads s.human R.lends) ⟦<String as RoundTrip<'de, R>>⟧.same v.ship w.ship _ _ _
        _ (field_only (⟦<Course as Deserialize<'de, R>>⟧.reads s.human R.lends) ⟦<Course as RoundTrip<'de, R>>⟧.same v.course w.course _ _ _ _
        (field_only (⟦<Vec<(u8, String)> as Deserialize<'de, R>>⟧.reads s.human R.lends) ⟦<Vec<(u8, String)> as RoundTrip<'de, R>>⟧.same v.crew w.crew _ _ _
        _ (field_only (⟦<u128 as Deserialize<'de, R>>⟧.reads s.human R.lends) ⟦<u128 as RoundTrip<'de, R>>⟧.same v.seal w.seal _ _ _ _
        (field_only (⟦<() as Deserialize<'de, R>>⟧.reads s.human R.lends) ⟦<() as RoundTrip<'de, R>>⟧.same v.nothing w.nothing _ _ _ _
        (field_only (⟦<char as Deserialize<'de, R>>⟧.reads s.human R.lends) ⟦<char as RoundTrip<'de, R>>⟧.same v.flag w.flag _ _ _ _
        (field_only (⟦<Spot as Deserialize<'de, R>>⟧.reads s.human R.lends) ⟦<Spot as RoundTrip<'de, R>>⟧.same v.spot w.spot _ _ _ _
        (field_only (⟦<BTreeMap<String, u64> as Deserialize<'de, R>>⟧.reads s.human R.lends) ⟦<BTreeMap<String, u64> as RoundTrip<'de, R>>⟧.same v.cargo
        w.cargo _ _ _ _ (field_only (⟦<[u16; 3] as Deserialize<'de, R>>⟧.reads s.human R.lends) ⟦<[u16; 3] as RoundTrip<'de, R>>⟧.same v.depths w.depths _ _
        _ _ (field_only (⟦<Option<Spot> as Deserialize<'de, R>>⟧.reads s.human R.lends) ⟦<Option<Spot> as RoundTrip<'de, R>>⟧.same v.last w.last _ _ _ _
        (field_only (⟦<ByteBuf as Deserialize<'de, R>>⟧.reads s.human R.lends) ⟦<ByteBuf as RoundTrip<'de, R>>⟧.same v.chart w.chart _ _ _ _
        (field_only (⟦<(i64, Option<bool>) as Deserialize<'de, R>>⟧.reads s.human R.lends) ⟦<(i64, Option<bool>) as RoundTrip<'de, R>>⟧.same v.pair w.pair _
        _ _ _ (field_only (⟦<Option<String> as Deserialize<'de, R>>⟧.reads s.human R.lends) ⟦<Option<String> as RoundTrip<'de, R>>⟧.same v.owner w.owner _ _
        _ _ (field_only (⟦<u32 as Deserialize<'de, R>>⟧.reads s.human R.lends) ⟦<u32 as RoundTrip<'de, R>>⟧.same v.tonnage w.tonnage _ _ _ _
        (field_only (⟦<F64Bits as Deserialize<'de, R>>⟧.reads s.human R.lends) ⟦<F64Bits as RoundTrip<'de, R>>⟧.same v.draught w.draught _ _ _ _
        (field_only (⟦<Vec<String> as Deserialize<'de, R>>⟧.reads s.human R.lends) ⟦<Vec<String> as RoundTrip<'de, R>>⟧.same v.ports w.ports _ _ _ _
        (field_only (⟦<i16 as Deserialize<'de, R>>⟧.reads s.human R.lends) ⟦<i16 as RoundTrip<'de, R>>⟧.same v.heading w.heading _ _ _ _
        (field_only (⟦<i128 as Deserialize<'de, R>>⟧.reads s.human R.lends) ⟦<i128 as RoundTrip<'de, R>>⟧.same v.debt w.debt _ _ _ _
        (field_only (⟦<BTreeSet<u16> as Deserialize<'de, R>>⟧.reads s.human R.lends) ⟦<BTreeSet<u16> as RoundTrip<'de, R>>⟧.same v.berths w.berths _ _ _ _
        (field_only (⟦<bool as Deserialize<'de, R>>⟧.reads s.human R.lends) ⟦<bool as RoundTrip<'de, R>>⟧.same v.done w.done _ _ _ _
        (field_only (⟦<Option<Course> as Deserialize<'de, R>>⟧.reads s.human R.lends) ⟦<Option<Course> as RoundTrip<'de, R>>⟧.same v.next w.next _ _ _ _
        (field_only (⟦<Vec<Spot> as Deserialize<'de, R>>⟧.reads s.human R.lends) ⟦<Vec<Spot> as RoundTrip<'de, R>>⟧.same v.marks w.marks _ _ _ _
        (field_only (⟦<u64 as Deserialize<'de, R>>⟧.reads s.human R.lends) ⟦<u64 as RoundTrip<'de, R>>⟧.same v.length w.length _ _ _ _
        (field_only (⟦<u8 as Deserialize<'de, R>>⟧.reads s.human R.lends) ⟦<u8 as RoundTrip<'de, R>>⟧.same v.beam w.beam _ _ _ _
        (field_only (⟦<BTreeMap<u16, String> as Deserialize<'de, R>>⟧.reads s.human R.lends) ⟦<BTreeMap<u16, String> as RoundTrip<'de, R>>⟧.same v.stores
        w.stores _ _ _ _ (field_only (⟦<Option<i64> as Deserialize<'de, R>>⟧.reads s.human R.lends) ⟦<Option<i64> as RoundTrip<'de, R>>⟧.same v.sounding
        w.sounding _ _ _ _ (field_only (⟦<[bool; 2] as Deserialize<'de, R>>⟧.reads s.human R.lends) ⟦<[bool; 2] as RoundTrip<'de, R>>⟧.same v.hatches
        w.hatches _ _ _ _ (field_only (⟦<Vec<Course> as Deserialize<'de, R>>⟧.reads s.human R.lends) ⟦<Vec<Course> as RoundTrip<'de, R>>⟧.same v.legs w.legs
        _ _ _ _ (field_only (⟦<(u8, String) as Deserialize<'de, R>>⟧.reads s.human R.lends) ⟦<(u8, String) as RoundTrip<'de, R>>⟧.same v.port w.port _ _ _ _
        (field_only (⟦<Vec<ByteBuf> as Deserialize<'de, R>>⟧.reads s.human R.lends) ⟦<Vec<ByteBuf> as RoundTrip<'de, R>>⟧.same v.log w.log _ _ _ _
        (field_only (⟦<Option<char> as Deserialize<'de, R>>⟧.reads s.human R.lends) ⟦<Option<char> as RoundTrip<'de, R>>⟧.same v.crane w.crane _ _ _ _
        (last_field (⟦<String as Deserialize<'de, R>>⟧.reads s.human R.lends) ⟦<String as RoundTrip<'de, R>>⟧.same v.surveyor w.surveyor
        _))))))))))))))))))))))))))))))) ks i j in (
          x.0,
          x.1.0,
          x.1.1.0,
          x.1.1.1.0,
          x.1.1.1.1.0,
          x.1.1.1.1.1.0,
          x.1.1.1.1.1.1.0,
          x.1.1.1.1.1.1.1.0,
          x.1.1.1.1.1.1.1.1.0,
          x.1.1.1.1.1.1.1.1.1.0,
          x.1.1.1.1.1.1.1.1.1.1.0,
          x.1.1.1.1.1.1.1.1.1.1.1.0,
          x.1.1.1.1.1.1.1.1.1.1.1.1.0,
          x.1.1.1.1.1.1.1.1.1.1.1.1.1.0,
          x.1.1.1.1.1.1.1.1.1.1.1.1.1.1.0,
          x.1.1.1.1.1.1.1.1.1.1.1.1.1.1.1.0,
          x.1.1.1.1.1.1.1.1.1.1.1.1.1.1.1.1.0,
          x.1.1.1.1.1.1.1.1.1.1.1.1.1.1.1.1.1.0,
          x.1.1.1.1.1.1.1.1.1.1.1.1.1.1.1.1.1.1.0,
          x.1.1.1.1.1.1.1.1.1.1.1.1.1.1.1.1.1.1.1.0,
          x.1.1.1.1.1.1.1.1.1.1.1.1.1.1.1.1.1.1.1.1.0,
          x.1.1.1.1.1.1.1.1.1.1.1.1.1.1.1.1.1.1.1.1.1.0,
          x.1.1.1.1.1.1.1.1.1.1.1.1.1.1.1.1.1.1.1.1.1.1.0,
          x.1.1.1.1.1.1.1.1.1.1.1.1.1.1.1.1.1.1.1.1.1.1.1.0,
          x.1.1.1.1.1.1.1.1.1.1.1.1.1.1.1.1.1.1.1.1.1.1.1.1.0,
          x.1.1.1.1.1.1.1.1.1.1.1.1.1.1.1.1.1.1.1.1.1.1.1.1.1.0,
          x.1.1.1.1.1.1.1.1.1.1.1.1.1.1.1.1.1.1.1.1.1.1.1.1.1.1.0,
          x.1.1.1.1.1.1.1.1.1.1.1.1.1.1.1.1.1.1.1.1.1.1.1.1.1.1.1.0,
          x.1.1.1.1.1.1.1.1.1.1.1.1.1.1.1.1.1.1.1.1.1.1.1.1.1.1.1.1.0,
          x.1.1.1.1.1.1.1.1.1.1.1.1.1.1.1.1.1.1.1.1.1.1.1.1.1.1.1.1.1.0,
          x.1.1.1.1.1.1.1.1.1.1.1.1.1.1.1.1.1.1.1.1.1.1.1.1.1.1.1.1.1.1.0,
          x.1.1.1.1.1.1.1.1.1.1.1.1.1.1.1.1.1.1.1.1.1.1.1.1.1.1.1.1.1.1.1,
        ))) };
}

impl NeverNil for Survey {
    ghost never_nil = { λ s v. structure_other s _ };
}

impl<'de, R: ReadSlice<'de>> EndsInside<'de, R> for Survey {
    ghost use Rattle.test_mixed.specs.contracts.mixed.derived.CourseEndsInside.TheImpl.Laws as course_ends;
    ghost use Rattle.test_mixed.specs.contracts.mixed.derived.SpotEndsInside.TheImpl.Laws as spot_ends;
    ghost use mir.Syntax.{given};

    ghost ends_inside = { fields_inside _ _ _ (
      string_inside,
      (
        (course_ends.ends_inside-law R.row R.ReadSlice.own (given 0) R.Source (given 0)),
        (
          (each_inside ⟦<(u8, String) as Deserialize<'de, R>>⟧.reads ⟦<(u8, String) as Deserialize<'de, R>>⟧.refuses
              (tuple_inside (part_of ⟦<u8 as Deserialize<'de, R>>⟧.reads ⟦<u8 as Deserialize<'de, R>>⟧.refuses
              ∷ (part_of ⟦<String as Deserialize<'de, R>>⟧.reads ⟦<String as Deserialize<'de, R>>⟧.refuses ∷ [])) (number_inside, (string_inside, tt)))),
          (
            unsigned128_inside,
            (
              nil_inside,
              (
                char_inside,
                (
                  (spot_ends.ends_inside-law R.row R.ReadSlice.own (given 0) R.Source (given 0)),
                  (
                    (map_inside ⟦<String as Deserialize<'de, R>>⟧.reads ⟦<u64 as Deserialize<'de, R>>⟧.reads ⟦<String as Deserialize<'de, R>>⟧.refuses
                        ⟦<u64 as Deserialize<'de, R>>⟧.refuses string_inside number_inside),
                    (
                      (array_inside _ 3 ⟦<u16 as Deserialize<'de, R>>⟧.reads ⟦<u16 as Deserialize<'de, R>>⟧.refuses number_inside),
                      (
                        (option_inside ⟦<Spot as Deserialize<'de, R>>⟧.refuses (spot_ends.ends_inside-law R.row R.ReadSlice.own (given 0) R.Source (given 0))),
                        (
                          buffer_inside,
                          (
                            (tuple_inside (part_of ⟦<i64 as Deserialize<'de, R>>⟧.reads ⟦<i64 as Deserialize<'de, R>>⟧.refuses
                                ∷ (part_of ⟦<Option<bool> as Deserialize<'de, R>>⟧.reads ⟦<Option<bool> as Deserialize<'de, R>>⟧.refuses ∷ []))
                                (number_inside, ((option_inside ⟦<bool as Deserialize<'de, R>>⟧.refuses kind_inside), tt))),
                            (
                              (option_inside ⟦<String as Deserialize<'de, R>>⟧.refuses string_inside),
                              (
                                number_inside,
                                (
                                  kind_inside,
                                  (
                                    (each_inside ⟦<String as Deserialize<'de, R>>⟧.reads ⟦<String as Deserialize<'de, R>>⟧.refuses string_inside),
                                    (
                                      number_inside,
                                      (
                                        signed128_inside,
                                        (
                                          (each_inside ⟦<u16 as Deserialize<'de, R>>⟧.reads ⟦<u16 as Deserialize<'de, R>>⟧.refuses number_inside),
                                          (
                                            kind_inside,
                                            (
                                              (option_inside ⟦<Course as Deserialize<'de, R>>⟧.refuses
                                                  (course_ends.ends_inside-law R.row R.ReadSlice.own (given 0) R.Source (given 0))),
                                              (
                                                (each_inside ⟦<Spot as Deserialize<'de, R>>⟧.reads ⟦<Spot as Deserialize<'de, R>>⟧.refuses
                                                    (spot_ends.ends_inside-law R.row R.ReadSlice.own (given 0) R.Source (given 0))),
                                                (
                                                  number_inside,
                                                  (
                                                    number_inside,
                                                    (
                                                      (map_inside ⟦<u16 as Deserialize<'de, R>>⟧.reads ⟦<String as Deserialize<'de, R>>⟧.reads
                                                          ⟦<u16 as Deserialize<'de, R>>⟧.refuses ⟦<String as Deserialize<'de, R>>⟧.refuses number_inside string_inside),
                                                      (
                                                        (option_inside ⟦<i64 as Deserialize<'de, R>>⟧.refuses number_inside),
                                                        (
                                                          (array_inside _ 2 ⟦<bool as Deserialize<'de, R>>⟧.reads ⟦<bool as Deserialize<'de, R>>⟧.refuses kind_inside),
                                                          (
                                                            (each_inside ⟦<Course as Deserialize<'de, R>>⟧.reads ⟦<Course as Deserialize<'de, R>>⟧.refuses
                                                                (course_ends.ends_inside-law R.row R.ReadSlice.own (given 0) R.Source (given 0))),
                                                            (
                                                              (tuple_inside (part_of ⟦<u8 as Deserialize<'de, R>>⟧.reads ⟦<u8 as Deserialize<'de, R>>⟧.refuses
                                                                  ∷ (part_of ⟦<String as Deserialize<'de, R>>⟧.reads ⟦<String as Deserialize<'de, R>>⟧.refuses ∷ [])) (number_inside, (string_inside, tt))),
                                                              (
                                                                (each_inside ⟦<ByteBuf as Deserialize<'de, R>>⟧.reads ⟦<ByteBuf as Deserialize<'de, R>>⟧.refuses buffer_inside),
                                                                ((option_inside ⟦<char as Deserialize<'de, R>>⟧.refuses char_inside), (string_inside, tt)),
                                                              ),
                                                            ),
                                                          ),
                                                        ),
                                                      ),
                                                    ),
                                                  ),
                                                ),
                                              ),
                                            ),
                                          ),
                                        ),
                                      ),
                                    ),
                                  ),
                                ),
                              ),
                            ),
                          ),
                        ),
                      ),
                    ),
                  ),
                ),
              ),
            ),
          ),
        ),
      ),
    ) };
}

// 16 values, the first 8 of which are written before the others.
#[derive(Drop)]
struct SixteenParts<'r, E1, E2, E3, E4, E5, E6, E7, E8, E9, E10, E11, E12, E13, E14, E15, E16> {
    first: &'r E1,
    second: &'r E2,
    third: &'r E3,
    fourth: &'r E4,
    fifth: &'r E5,
    sixth: &'r E6,
    seventh: &'r E7,
    eighth: &'r E8,
    ninth: &'r E9,
    tenth: &'r E10,
    eleventh: &'r E11,
    twelfth: &'r E12,
    thirteenth: &'r E13,
    fourteenth: &'r E14,
    fifteenth: &'r E15,
    sixteenth: &'r E16,
}

impl<
    'r,
    E1: Serialize,
    E2: Serialize,
    E3: Serialize,
    E4: Serialize,
    E5: Serialize,
    E6: Serialize,
    E7: Serialize,
    E8: Serialize,
    E9: Serialize,
    E10: Serialize,
    E11: Serialize,
    E12: Serialize,
    E13: Serialize,
    E14: Serialize,
    E15: Serialize,
    E16: Serialize,
> Elements
    for SixteenParts<'r, E1, E2, E3, E4, E5, E6, E7, E8, E9, E10, E11, E12, E13, E14, E15, E16> {
    ghost count = { 16 };

    ghost parts_of = { λ v human. E1.data_of v.first.now human ∷ E2.data_of v.second.now human ∷ E3.data_of v.third.now human
        ∷ E4.data_of v.fourth.now human ∷ E5.data_of v.fifth.now human ∷ E6.data_of v.sixth.now human ∷ E7.data_of v.seventh.now human
        ∷ E8.data_of v.eighth.now human ∷ E9.data_of v.ninth.now human ∷ E10.data_of v.tenth.now human ∷ E11.data_of v.eleventh.now human
        ∷ E12.data_of v.twelfth.now human ∷ E13.data_of v.thirteenth.now human ∷ E14.data_of v.fourteenth.now human ∷ E15.data_of v.fifteenth.now human
        ∷ E16.data_of v.sixteenth.now human ∷ [] };

    ghost are_values = { λ v. E1.is_value v.first.now × E2.is_value v.second.now × E3.is_value v.third.now × E4.is_value v.fourth.now
        × E5.is_value v.fifth.now × E6.is_value v.sixth.now × E7.is_value v.seventh.now × E8.is_value v.eighth.now × E9.is_value v.ninth.now
        × E10.is_value v.tenth.now × E11.is_value v.eleventh.now × E12.is_value v.twelfth.now × E13.is_value v.thirteenth.now
        × E14.is_value v.fourteenth.now × E15.is_value v.fifteenth.now × E16.is_value v.sixteenth.now };

    ghost refusals = { λ v. E1.refuses v.first.now ∷ E2.refuses v.second.now ∷ E3.refuses v.third.now ∷ E4.refuses v.fourth.now ∷ E5.refuses v.fifth.now
        ∷ E6.refuses v.sixth.now ∷ E7.refuses v.seventh.now ∷ E8.refuses v.eighth.now ∷ E9.refuses v.ninth.now ∷ E10.refuses v.tenth.now
        ∷ E11.refuses v.eleventh.now ∷ E12.refuses v.twelfth.now ∷ E13.refuses v.thirteenth.now ∷ E14.refuses v.fourteenth.now ∷ E15.refuses v.fifteenth.now
        ∷ E16.refuses v.sixteenth.now ∷ [] };

    ghost takes_memory = { λ s. one_of (E1.takes_memory s
        ∷ (E2.takes_memory s ∷ (E3.takes_memory s ∷ (E4.takes_memory s
        ∷ (E5.takes_memory s ∷ (E6.takes_memory s ∷ (E7.takes_memory s
        ∷ (E8.takes_memory s ∷ (E9.takes_memory s ∷ (E10.takes_memory s
        ∷ (E11.takes_memory s ∷ (E12.takes_memory s ∷ (E13.takes_memory s
        ∷ (E14.takes_memory s ∷ (E15.takes_memory s ∷ (E16.takes_memory s ∷ [])))))))))))))))) };

    ghost pieces = { λ v s.
        value_of s (E1.data_of v.first.now s.human) (E1.marks v.first.now s) ∷
        value_of s (E2.data_of v.second.now s.human) (E2.marks v.second.now s) ∷
        value_of s (E3.data_of v.third.now s.human) (E3.marks v.third.now s) ∷
        value_of s (E4.data_of v.fourth.now s.human) (E4.marks v.fourth.now s) ∷
        value_of s (E5.data_of v.fifth.now s.human) (E5.marks v.fifth.now s) ∷
        value_of s (E6.data_of v.sixth.now s.human) (E6.marks v.sixth.now s) ∷
        value_of s (E7.data_of v.seventh.now s.human) (E7.marks v.seventh.now s) ∷
        value_of s (E8.data_of v.eighth.now s.human) (E8.marks v.eighth.now s) ∷
        value_of s (E9.data_of v.ninth.now s.human) (E9.marks v.ninth.now s) ∷
        value_of s (E10.data_of v.tenth.now s.human) (E10.marks v.tenth.now s) ∷
        value_of s (E11.data_of v.eleventh.now s.human) (E11.marks v.eleventh.now s) ∷
        value_of s (E12.data_of v.twelfth.now s.human) (E12.marks v.twelfth.now s) ∷
        value_of s (E13.data_of v.thirteenth.now s.human) (E13.marks v.thirteenth.now s) ∷
        value_of s (E14.data_of v.fourteenth.now s.human) (E14.marks v.fourteenth.now s) ∷
        value_of s (E15.data_of v.fifteenth.now s.human) (E15.marks v.fifteenth.now s) ∷
        value_of s (E16.data_of v.sixteenth.now s.human) (E16.marks v.sixteenth.now s) ∷ [] };

    ghost counted = { λ v human. refl };

    #[inline(always)]
    fn len(&self) -> usize {
        16
    }

    #[inline(always)]
    fn write<W: Sink, C: SerializerConfig>(
        &self,
        se: &mut Serializer<W, C>,
    ) -> Result<(), rmp_encode::Error> {
        let front = rmp_encode::Eight {
            first: self.first,
            second: self.second,
            third: self.third,
            fourth: self.fourth,
            fifth: self.fifth,
            sixth: self.sixth,
            seventh: self.seventh,
            eighth: self.eighth,
        };
        let back = rmp_encode::Eight {
            first: self.ninth,
            second: self.tenth,
            third: self.eleventh,
            fourth: self.twelfth,
            fifth: self.thirteenth,
            sixth: self.fourteenth,
            seventh: self.fifteenth,
            eighth: self.sixteenth,
        };
        front.write(se)?;
        back.write(se)
    }

    #[inline(always)]
    fn write_fields<W: Sink, C: SerializerConfig>(
        &self,
        names: &[&'static str],
        se: &mut Serializer<W, C>,
    ) -> Result<(), rmp_encode::Error> {
        let front = rmp_encode::Eight {
            first: self.first,
            second: self.second,
            third: self.third,
            fourth: self.fourth,
            fifth: self.fifth,
            sixth: self.sixth,
            seventh: self.seventh,
            eighth: self.eighth,
        };
        let back = rmp_encode::Eight {
            first: self.ninth,
            second: self.tenth,
            third: self.eleventh,
            fourth: self.twelfth,
            fifth: self.thirteenth,
            sixth: self.fourteenth,
            seventh: self.fifteenth,
            eighth: self.sixteenth,
        };
        front.write_fields(&names[..8], se)?;
        back.write_fields(&names[8..], se)
    }
}

// 32 values, the first 16 of which are written before the others.
#[derive(Drop)]
struct ThirtyTwoParts<
    'r,
    E1,
    E2,
    E3,
    E4,
    E5,
    E6,
    E7,
    E8,
    E9,
    E10,
    E11,
    E12,
    E13,
    E14,
    E15,
    E16,
    E17,
    E18,
    E19,
    E20,
    E21,
    E22,
    E23,
    E24,
    E25,
    E26,
    E27,
    E28,
    E29,
    E30,
    E31,
    E32,
> {
    first: &'r E1,
    second: &'r E2,
    third: &'r E3,
    fourth: &'r E4,
    fifth: &'r E5,
    sixth: &'r E6,
    seventh: &'r E7,
    eighth: &'r E8,
    ninth: &'r E9,
    tenth: &'r E10,
    eleventh: &'r E11,
    twelfth: &'r E12,
    thirteenth: &'r E13,
    fourteenth: &'r E14,
    fifteenth: &'r E15,
    sixteenth: &'r E16,
    seventeenth: &'r E17,
    eighteenth: &'r E18,
    nineteenth: &'r E19,
    twentieth: &'r E20,
    twenty_first: &'r E21,
    twenty_second: &'r E22,
    twenty_third: &'r E23,
    twenty_fourth: &'r E24,
    twenty_fifth: &'r E25,
    twenty_sixth: &'r E26,
    twenty_seventh: &'r E27,
    twenty_eighth: &'r E28,
    twenty_ninth: &'r E29,
    thirtieth: &'r E30,
    thirty_first: &'r E31,
    thirty_second: &'r E32,
}

impl<
    'r,
    E1: Serialize,
    E2: Serialize,
    E3: Serialize,
    E4: Serialize,
    E5: Serialize,
    E6: Serialize,
    E7: Serialize,
    E8: Serialize,
    E9: Serialize,
    E10: Serialize,
    E11: Serialize,
    E12: Serialize,
    E13: Serialize,
    E14: Serialize,
    E15: Serialize,
    E16: Serialize,
    E17: Serialize,
    E18: Serialize,
    E19: Serialize,
    E20: Serialize,
    E21: Serialize,
    E22: Serialize,
    E23: Serialize,
    E24: Serialize,
    E25: Serialize,
    E26: Serialize,
    E27: Serialize,
    E28: Serialize,
    E29: Serialize,
    E30: Serialize,
    E31: Serialize,
    E32: Serialize,
> Elements
    for ThirtyTwoParts<
        'r,
        E1,
        E2,
        E3,
        E4,
        E5,
        E6,
        E7,
        E8,
        E9,
        E10,
        E11,
        E12,
        E13,
        E14,
        E15,
        E16,
        E17,
        E18,
        E19,
        E20,
        E21,
        E22,
        E23,
        E24,
        E25,
        E26,
        E27,
        E28,
        E29,
        E30,
        E31,
        E32,
    > {
    ghost count = { 32 };

    ghost parts_of = { λ v human. E1.data_of v.first.now human ∷ E2.data_of v.second.now human ∷ E3.data_of v.third.now human
        ∷ E4.data_of v.fourth.now human ∷ E5.data_of v.fifth.now human ∷ E6.data_of v.sixth.now human ∷ E7.data_of v.seventh.now human
        ∷ E8.data_of v.eighth.now human ∷ E9.data_of v.ninth.now human ∷ E10.data_of v.tenth.now human ∷ E11.data_of v.eleventh.now human
        ∷ E12.data_of v.twelfth.now human ∷ E13.data_of v.thirteenth.now human ∷ E14.data_of v.fourteenth.now human ∷ E15.data_of v.fifteenth.now human
        ∷ E16.data_of v.sixteenth.now human ∷ E17.data_of v.seventeenth.now human ∷ E18.data_of v.eighteenth.now human ∷ E19.data_of v.nineteenth.now human
        ∷ E20.data_of v.twentieth.now human ∷ E21.data_of v.twenty_first.now human ∷ E22.data_of v.twenty_second.now human
        ∷ E23.data_of v.twenty_third.now human ∷ E24.data_of v.twenty_fourth.now human ∷ E25.data_of v.twenty_fifth.now human
        ∷ E26.data_of v.twenty_sixth.now human ∷ E27.data_of v.twenty_seventh.now human ∷ E28.data_of v.twenty_eighth.now human
        ∷ E29.data_of v.twenty_ninth.now human ∷ E30.data_of v.thirtieth.now human ∷ E31.data_of v.thirty_first.now human
        ∷ E32.data_of v.thirty_second.now human ∷ [] };

    ghost are_values = { λ v. E1.is_value v.first.now × E2.is_value v.second.now × E3.is_value v.third.now × E4.is_value v.fourth.now
        × E5.is_value v.fifth.now × E6.is_value v.sixth.now × E7.is_value v.seventh.now × E8.is_value v.eighth.now × E9.is_value v.ninth.now
        × E10.is_value v.tenth.now × E11.is_value v.eleventh.now × E12.is_value v.twelfth.now × E13.is_value v.thirteenth.now
        × E14.is_value v.fourteenth.now × E15.is_value v.fifteenth.now × E16.is_value v.sixteenth.now × E17.is_value v.seventeenth.now
        × E18.is_value v.eighteenth.now × E19.is_value v.nineteenth.now × E20.is_value v.twentieth.now × E21.is_value v.twenty_first.now
        × E22.is_value v.twenty_second.now × E23.is_value v.twenty_third.now × E24.is_value v.twenty_fourth.now × E25.is_value v.twenty_fifth.now
        × E26.is_value v.twenty_sixth.now × E27.is_value v.twenty_seventh.now × E28.is_value v.twenty_eighth.now × E29.is_value v.twenty_ninth.now
        × E30.is_value v.thirtieth.now × E31.is_value v.thirty_first.now × E32.is_value v.thirty_second.now };

    ghost refusals = { λ v. E1.refuses v.first.now ∷ E2.refuses v.second.now ∷ E3.refuses v.third.now ∷ E4.refuses v.fourth.now ∷ E5.refuses v.fifth.now
        ∷ E6.refuses v.sixth.now ∷ E7.refuses v.seventh.now ∷ E8.refuses v.eighth.now ∷ E9.refuses v.ninth.now ∷ E10.refuses v.tenth.now
        ∷ E11.refuses v.eleventh.now ∷ E12.refuses v.twelfth.now ∷ E13.refuses v.thirteenth.now ∷ E14.refuses v.fourteenth.now ∷ E15.refuses v.fifteenth.now
        ∷ E16.refuses v.sixteenth.now ∷ E17.refuses v.seventeenth.now ∷ E18.refuses v.eighteenth.now ∷ E19.refuses v.nineteenth.now
        ∷ E20.refuses v.twentieth.now ∷ E21.refuses v.twenty_first.now ∷ E22.refuses v.twenty_second.now ∷ E23.refuses v.twenty_third.now
        ∷ E24.refuses v.twenty_fourth.now ∷ E25.refuses v.twenty_fifth.now ∷ E26.refuses v.twenty_sixth.now ∷ E27.refuses v.twenty_seventh.now
        ∷ E28.refuses v.twenty_eighth.now ∷ E29.refuses v.twenty_ninth.now ∷ E30.refuses v.thirtieth.now ∷ E31.refuses v.thirty_first.now
        ∷ E32.refuses v.thirty_second.now ∷ [] };

    ghost takes_memory = { λ s. one_of (E1.takes_memory s
        ∷ (E2.takes_memory s ∷ (E3.takes_memory s ∷ (E4.takes_memory s
        ∷ (E5.takes_memory s ∷ (E6.takes_memory s ∷ (E7.takes_memory s
        ∷ (E8.takes_memory s ∷ (E9.takes_memory s ∷ (E10.takes_memory s
        ∷ (E11.takes_memory s ∷ (E12.takes_memory s ∷ (E13.takes_memory s
        ∷ (E14.takes_memory s ∷ (E15.takes_memory s ∷ (E16.takes_memory s
        ∷ (E17.takes_memory s ∷ (E18.takes_memory s ∷ (E19.takes_memory s
        ∷ (E20.takes_memory s ∷ (E21.takes_memory s ∷ (E22.takes_memory s
        ∷ (E23.takes_memory s ∷ (E24.takes_memory s ∷ (E25.takes_memory s
        ∷ (E26.takes_memory s ∷ (E27.takes_memory s ∷ (E28.takes_memory s
        ∷ (E29.takes_memory s ∷ (E30.takes_memory s ∷ (E31.takes_memory s ∷ (E32.takes_memory s ∷ [])))))))))))))))))))))))))))))))) };

    ghost pieces = { λ v s.
        value_of s (E1.data_of v.first.now s.human) (E1.marks v.first.now s) ∷
        value_of s (E2.data_of v.second.now s.human) (E2.marks v.second.now s) ∷
        value_of s (E3.data_of v.third.now s.human) (E3.marks v.third.now s) ∷
        value_of s (E4.data_of v.fourth.now s.human) (E4.marks v.fourth.now s) ∷
        value_of s (E5.data_of v.fifth.now s.human) (E5.marks v.fifth.now s) ∷
        value_of s (E6.data_of v.sixth.now s.human) (E6.marks v.sixth.now s) ∷
        value_of s (E7.data_of v.seventh.now s.human) (E7.marks v.seventh.now s) ∷
        value_of s (E8.data_of v.eighth.now s.human) (E8.marks v.eighth.now s) ∷
        value_of s (E9.data_of v.ninth.now s.human) (E9.marks v.ninth.now s) ∷
        value_of s (E10.data_of v.tenth.now s.human) (E10.marks v.tenth.now s) ∷
        value_of s (E11.data_of v.eleventh.now s.human) (E11.marks v.eleventh.now s) ∷
        value_of s (E12.data_of v.twelfth.now s.human) (E12.marks v.twelfth.now s) ∷
        value_of s (E13.data_of v.thirteenth.now s.human) (E13.marks v.thirteenth.now s) ∷
        value_of s (E14.data_of v.fourteenth.now s.human) (E14.marks v.fourteenth.now s) ∷
        value_of s (E15.data_of v.fifteenth.now s.human) (E15.marks v.fifteenth.now s) ∷
        value_of s (E16.data_of v.sixteenth.now s.human) (E16.marks v.sixteenth.now s) ∷
        value_of s (E17.data_of v.seventeenth.now s.human) (E17.marks v.seventeenth.now s) ∷
        value_of s (E18.data_of v.eighteenth.now s.human) (E18.marks v.eighteenth.now s) ∷
        value_of s (E19.data_of v.nineteenth.now s.human) (E19.marks v.nineteenth.now s) ∷
        value_of s (E20.data_of v.twentieth.now s.human) (E20.marks v.twentieth.now s) ∷
        value_of s (E21.data_of v.twenty_first.now s.human) (E21.marks v.twenty_first.now s) ∷
        value_of s (E22.data_of v.twenty_second.now s.human) (E22.marks v.twenty_second.now s) ∷
        value_of s (E23.data_of v.twenty_third.now s.human) (E23.marks v.twenty_third.now s) ∷
        value_of s (E24.data_of v.twenty_fourth.now s.human) (E24.marks v.twenty_fourth.now s) ∷
        value_of s (E25.data_of v.twenty_fifth.now s.human) (E25.marks v.twenty_fifth.now s) ∷
        value_of s (E26.data_of v.twenty_sixth.now s.human) (E26.marks v.twenty_sixth.now s) ∷
        value_of s (E27.data_of v.twenty_seventh.now s.human) (E27.marks v.twenty_seventh.now s) ∷
        value_of s (E28.data_of v.twenty_eighth.now s.human) (E28.marks v.twenty_eighth.now s) ∷
        value_of s (E29.data_of v.twenty_ninth.now s.human) (E29.marks v.twenty_ninth.now s) ∷
        value_of s (E30.data_of v.thirtieth.now s.human) (E30.marks v.thirtieth.now s) ∷
        value_of s (E31.data_of v.thirty_first.now s.human) (E31.marks v.thirty_first.now s) ∷
        value_of s (E32.data_of v.thirty_second.now s.human) (E32.marks v.thirty_second.now s) ∷ [] };

    ghost counted = { λ v human. refl };

    #[inline(always)]
    fn len(&self) -> usize {
        32
    }

    #[inline(always)]
    fn write<W: Sink, C: SerializerConfig>(
        &self,
        se: &mut Serializer<W, C>,
    ) -> Result<(), rmp_encode::Error> {
        let front = SixteenParts {
            first: self.first,
            second: self.second,
            third: self.third,
            fourth: self.fourth,
            fifth: self.fifth,
            sixth: self.sixth,
            seventh: self.seventh,
            eighth: self.eighth,
            ninth: self.ninth,
            tenth: self.tenth,
            eleventh: self.eleventh,
            twelfth: self.twelfth,
            thirteenth: self.thirteenth,
            fourteenth: self.fourteenth,
            fifteenth: self.fifteenth,
            sixteenth: self.sixteenth,
        };
        let back = SixteenParts {
            first: self.seventeenth,
            second: self.eighteenth,
            third: self.nineteenth,
            fourth: self.twentieth,
            fifth: self.twenty_first,
            sixth: self.twenty_second,
            seventh: self.twenty_third,
            eighth: self.twenty_fourth,
            ninth: self.twenty_fifth,
            tenth: self.twenty_sixth,
            eleventh: self.twenty_seventh,
            twelfth: self.twenty_eighth,
            thirteenth: self.twenty_ninth,
            fourteenth: self.thirtieth,
            fifteenth: self.thirty_first,
            sixteenth: self.thirty_second,
        };
        front.write(se)?;
        back.write(se)
    }

    #[inline(always)]
    fn write_fields<W: Sink, C: SerializerConfig>(
        &self,
        names: &[&'static str],
        se: &mut Serializer<W, C>,
    ) -> Result<(), rmp_encode::Error> {
        let front = SixteenParts {
            first: self.first,
            second: self.second,
            third: self.third,
            fourth: self.fourth,
            fifth: self.fifth,
            sixth: self.sixth,
            seventh: self.seventh,
            eighth: self.eighth,
            ninth: self.ninth,
            tenth: self.tenth,
            eleventh: self.eleventh,
            twelfth: self.twelfth,
            thirteenth: self.thirteenth,
            fourteenth: self.fourteenth,
            fifteenth: self.fifteenth,
            sixteenth: self.sixteenth,
        };
        let back = SixteenParts {
            first: self.seventeenth,
            second: self.eighteenth,
            third: self.nineteenth,
            fourth: self.twentieth,
            fifth: self.twenty_first,
            sixth: self.twenty_second,
            seventh: self.twenty_third,
            eighth: self.twenty_fourth,
            ninth: self.twenty_fifth,
            tenth: self.twenty_sixth,
            eleventh: self.twenty_seventh,
            twelfth: self.twenty_eighth,
            thirteenth: self.twenty_ninth,
            fourteenth: self.thirtieth,
            fifteenth: self.thirty_first,
            sixteenth: self.thirty_second,
        };
        front.write_fields(&names[..16], se)?;
        back.write_fields(&names[16..], se)
    }
}
