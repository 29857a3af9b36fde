//! How the types of manifest.rt are written and read. Written by tools/derive.py.
//!
//! Sum of Manifest: 792cb3e2.
ghost use Rattle.rmp_decode.specs.Arrays.{Exactly};
ghost use Rattle.rmp_decode.specs.FieldRefusing.{RefusesFields};
ghost use Rattle.rmp_decode.specs.Fields.{OfFields, Field, Absent, NoField};
ghost use Rattle.rmp_decode.specs.Refusing.{part_of};
ghost use Rattle.rmp_decode.specs.Rows.{ReadsEach};
ghost use Rattle.rmp_encode.specs.Markers.{value_of};
ghost use Rattle.rmp_encode.specs.Refusals.{OfParts};
ghost use Rattle.rmp_encode.specs.Sizes.{one_of};
ghost use Rattle.rmp_encode.specs.Trees.{structure_of, tuple_of};
ghost use Rattle.rmp_ends.specs.BufferEnds.{buffer_inside};
ghost use Rattle.rmp_ends.specs.FieldEnds.{fields_inside};
ghost use Rattle.rmp_ends.specs.LeafEnds.{kind_inside, number_inside, nil_inside, signed128_inside, unsigned128_inside, char_inside, string_inside};
ghost use Rattle.rmp_ends.specs.MapEnds.{map_inside};
ghost use Rattle.rmp_ends.specs.RowEnds.{array_inside, each_inside, option_inside, tuple_inside};
ghost use Rattle.rmp_round_trip.specs.AlikeData.{array_alike, bytes_alike, float64_alike, mapping_alike, option_alike};
ghost use Rattle.rmp_round_trip.specs.AlikeData.{sequence_alike, slice_alike, text_alike, unit_alike};
ghost use Rattle.rmp_round_trip.specs.AlikeOrder.{tied};
ghost use Rattle.rmp_round_trip.specs.LeafRounds.{byte_row, unsigned_row_16, unsigned_row_32, unsigned_row_64, signed_row_16, signed_row_64, truth_row};
ghost use Rattle.rmp_round_trip.specs.LeafRounds.{unit_row, float64_row, char_row, string_row, buffer_row, truth_other, text_other};
ghost use Rattle.rmp_round_trip.specs.MapRounds.{mapping_some, map_row, pairs_row, set_row};
ghost use Rattle.rmp_round_trip.specs.OnlyFields.{field_only, fields_both, last_field};
ghost use Rattle.rmp_round_trip.specs.OnlyLeaves.{unit_only, truth_only, byte_only, unsigned_only, signed_only, float64_only};
ghost use Rattle.rmp_round_trip.specs.OnlyLeaves.{unsigned128_only, signed128_only, char_only, string_only, buffer_only};
ghost use Rattle.rmp_round_trip.specs.OnlyMaps.{entries_only, set_only};
ghost use Rattle.rmp_round_trip.specs.OnlyRows.{array_only, item_only, last_only, list_only, lowers_then, option_only, row_both};
ghost use Rattle.rmp_round_trip.specs.RoundTrip.{Only};
ghost use Rattle.rmp_round_trip.specs.Rounds.{each_some, each_row, rows_map, option_some, option_row, slice_some, slice_row};
ghost use Rattle.rmp_round_trip.specs.Rounds.{tuple_some, tuple_row, sequence_some, sequence_row, rows_none, rows_cons};
ghost use Rattle.rmp_round_trip.specs.StructRounds.{tuple_all, structure_all, structure_row, structure_other, fields_none, fields_cons};
ghost use Rattle.rmp_round_trip.specs.WideRounds.{unsigned128_row, signed128_row};
ghost use Rattle.rmp_wire.specs.Types.{buffer_bytes};
ghost use Rattle.std.proofs.Common.{refl, rules};
ghost use Rattle.std.proofs.lemmas.Cmp.{on_total, nat_list_cmp_total};
ghost use Rattle.std.specs.Cmp.Lexicographic.{slice_cmp};
ghost use Rattle.std.specs.Cmp.Rules.{comparing};
ghost use Rattle.std.specs.Option.{is_none};
ghost use Rattle.std.specs.Ordering.{nat_cmp};
ghost use Rattle.std.specs.Prelude.{◌∷◌, [], None, codes, string_bytes, pos, negsuc};

use super::{BTreeMap, BTreeSet, ByteBuf, Course, F64Bits, Manifest, Spot};
use rmp_decode::{Deserialize, Deserializer, EightThen};
use rmp_encode::{Elements, Serialize, Serializer};
use rmp_ends::EndsInside;
use rmp_round_trip::{NeverNil, RoundTrip};
use rmp_wire::config::SerializerConfig;
use rmp_wire::{ReadSlice, Sink};

impl Serialize for Manifest {
    ghost data_of = { λ v human. structure_of ((codes "ship", ⟦<String as Serialize>⟧.data_of v.ship human)
        ∷ ((codes "course", ⟦<Course as Serialize>⟧.data_of v.course human)
        ∷ ((codes "crew", ⟦<Vec<(u8, String)> as Serialize>⟧.data_of v.crew human)
        ∷ ((codes "seal", ⟦<u128 as Serialize>⟧.data_of v.seal human)
        ∷ ((codes "nothing", ⟦<() as Serialize>⟧.data_of v.nothing human)
        ∷ ((codes "flag", ⟦<char as Serialize>⟧.data_of v.flag human)
        ∷ ((codes "spot", ⟦<Spot as Serialize>⟧.data_of v.spot human)
        ∷ ((codes "cargo", ⟦<BTreeMap<String, u64> as Serialize>⟧.data_of v.cargo human)
        ∷ ((codes "depths", ⟦<[u16; 3] as Serialize>⟧.data_of v.depths human)
        ∷ ((codes "last", ⟦<Option<Spot> as Serialize>⟧.data_of v.last human)
        ∷ ((codes "chart", ⟦<ByteBuf as Serialize>⟧.data_of v.chart human)
        ∷ ((codes "pair", ⟦<(i64, Option<bool>) as Serialize>⟧.data_of v.pair human)
        ∷ ((codes "owner", ⟦<Option<String> as Serialize>⟧.data_of v.owner human)
        ∷ ((codes "tonnage", ⟦<u32 as Serialize>⟧.data_of v.tonnage human)
        ∷ ((codes "draught", ⟦<F64Bits as Serialize>⟧.data_of v.draught human)
        ∷ ((codes "ports", ⟦<Vec<String> as Serialize>⟧.data_of v.ports human)
        ∷ ((codes "heading", ⟦<i16 as Serialize>⟧.data_of v.heading human)
        ∷ ((codes "debt", ⟦<i128 as Serialize>⟧.data_of v.debt human)
        ∷ ((codes "berths", ⟦<BTreeSet<u16> as Serialize>⟧.data_of v.berths human)
        ∷ ((codes "done", ⟦<bool as Serialize>⟧.data_of v.done human) ∷ [])))))))))))))))))))) };

    ghost is_value = { λ v. ⟦<String as Serialize>⟧.is_value v.ship × ⟦<Course as Serialize>⟧.is_value v.course
        × ⟦<Vec<(u8, String)> as Serialize>⟧.is_value v.crew × ⟦<u128 as Serialize>⟧.is_value v.seal × ⟦<() as Serialize>⟧.is_value v.nothing
        × ⟦<char as Serialize>⟧.is_value v.flag × ⟦<Spot as Serialize>⟧.is_value v.spot × ⟦<BTreeMap<String, u64> as Serialize>⟧.is_value v.cargo
        × ⟦<[u16; 3] as Serialize>⟧.is_value v.depths × ⟦<Option<Spot> as Serialize>⟧.is_value v.last × ⟦<ByteBuf as Serialize>⟧.is_value v.chart
        × ⟦<(i64, Option<bool>) as Serialize>⟧.is_value v.pair × ⟦<Option<String> as Serialize>⟧.is_value v.owner × ⟦<u32 as Serialize>⟧.is_value v.tonnage
        × ⟦<F64Bits as Serialize>⟧.is_value v.draught × ⟦<Vec<String> as Serialize>⟧.is_value v.ports × ⟦<i16 as Serialize>⟧.is_value v.heading
        × ⟦<i128 as Serialize>⟧.is_value v.debt × ⟦<BTreeSet<u16> as Serialize>⟧.is_value v.berths × ⟦<bool as Serialize>⟧.is_value v.done };

    ghost takes_memory = { λ s. one_of (⟦<String as Serialize>⟧.takes_memory s
        ∷ (⟦<Course as Serialize>⟧.takes_memory s ∷ (⟦<Vec<(u8, String)> as Serialize>⟧.takes_memory s
        ∷ (⟦<u128 as Serialize>⟧.takes_memory s ∷ (⟦<() as Serialize>⟧.takes_memory s
        ∷ (⟦<char as Serialize>⟧.takes_memory s ∷ (⟦<Spot as Serialize>⟧.takes_memory s
        ∷ (⟦<BTreeMap<String, u64> as Serialize>⟧.takes_memory s
        ∷ (⟦<[u16; 3] as Serialize>⟧.takes_memory s ∷ (⟦<Option<Spot> as Serialize>⟧.takes_memory s
        ∷ (⟦<ByteBuf as Serialize>⟧.takes_memory s ∷ (⟦<(i64, Option<bool>) as Serialize>⟧.takes_memory s
        ∷ (⟦<Option<String> as Serialize>⟧.takes_memory s ∷
        (⟦<u32 as Serialize>⟧.takes_memory s ∷ (⟦<F64Bits as Serialize>⟧.takes_memory s
        ∷ (⟦<Vec<String> as Serialize>⟧.takes_memory s ∷ (⟦<i16 as Serialize>⟧.takes_memory s
        ∷ (⟦<i128 as Serialize>⟧.takes_memory s ∷ (⟦<BTreeSet<u16> as Serialize>⟧.takes_memory s
        ∷ (⟦<bool as Serialize>⟧.takes_memory s ∷ [])))))))))))))))))))) };

    ghost refuses = { λ v. OfParts ⊥ (⟦<String as Serialize>⟧.refuses v.ship
        ∷ (⟦<Course as Serialize>⟧.refuses v.course ∷ (⟦<Vec<(u8, String)> as Serialize>⟧.refuses v.crew
        ∷ (⟦<u128 as Serialize>⟧.refuses v.seal ∷ (⟦<() as Serialize>⟧.refuses v.nothing
        ∷ (⟦<char as Serialize>⟧.refuses v.flag ∷ (⟦<Spot as Serialize>⟧.refuses v.spot
        ∷ (⟦<BTreeMap<String, u64> as Serialize>⟧.refuses v.cargo
        ∷ (⟦<[u16; 3] as Serialize>⟧.refuses v.depths ∷ (⟦<Option<Spot> as Serialize>⟧.refuses v.last
        ∷ (⟦<ByteBuf as Serialize>⟧.refuses v.chart ∷ (⟦<(i64, Option<bool>) as Serialize>⟧.refuses v.pair
        ∷ (⟦<Option<String> as Serialize>⟧.refuses v.owner
        ∷ (⟦<u32 as Serialize>⟧.refuses v.tonnage ∷ (⟦<F64Bits as Serialize>⟧.refuses v.draught
        ∷ (⟦<Vec<String> as Serialize>⟧.refuses v.ports ∷ (⟦<i16 as Serialize>⟧.refuses v.heading
        ∷ (⟦<i128 as Serialize>⟧.refuses v.debt ∷ (⟦<BTreeSet<u16> as Serialize>⟧.refuses v.berths
        ∷ (⟦<bool as Serialize>⟧.refuses v.done ∷ [])))))))))))))))))))) };

    fn serialize<W: Sink, C: SerializerConfig>(
        &self,
        se: &mut Serializer<W, C>,
    ) -> Result<(), rmp_encode::Error> {
        let parts = TwentyParts {
            first: &self.ship,
            second: &self.course,
            third: &self.crew,
            fourth: &self.seal,
            fifth: &self.nothing,
            sixth: &self.flag,
            seventh: &self.spot,
            eighth: &self.cargo,
            ninth: &self.depths,
            tenth: &self.last,
            eleventh: &self.chart,
            twelfth: &self.pair,
            thirteenth: &self.owner,
            fourteenth: &self.tonnage,
            fifteenth: &self.draught,
            sixteenth: &self.ports,
            seventeenth: &self.heading,
            eighteenth: &self.debt,
            nineteenth: &self.berths,
            twentieth: &self.done,
        };
        se.serialize_fields(
            "Manifest",
            &[
                "ship", "course", "crew", "seal", "nothing", "flag", "spot", "cargo", "depths",
                "last", "chart", "pair", "owner", "tonnage", "draught", "ports", "heading", "debt",
                "berths", "done",
            ],
            &parts,
        )
    }

    #[tactic(auto, using(rmp_encode::proofs::Fields::structure_no_byte))]
    fn as_u8(&self, _human: bool) -> Option<u8> {
        None
    }
}

impl<'de, R: ReadSlice<'de>> Deserialize<'de, R> for Manifest {
    ghost reads = { λ human lends m v. OfFields (codes "ship"
        ∷ (codes "course" ∷ (codes "crew" ∷ (codes "seal" ∷
        (codes "nothing" ∷ (codes "flag" ∷ (codes "spot" ∷
        (codes "cargo" ∷ (codes "depths" ∷ (codes "last" ∷
        (codes "chart" ∷ (codes "pair" ∷ (codes "owner" ∷ (codes "tonnage"
        ∷ (codes "draught" ∷ (codes "ports" ∷ (codes "heading" ∷ (codes "debt" ∷ (codes "berths" ∷ (codes "done" ∷ []))))))))))))))))))))
        (Field (λ j. ⟦<String as Deserialize<'de, R>>⟧.reads human lends j v.ship) (Absent ⟦<String as Deserialize<'de, R>>⟧.absent v.ship)
        (Field (λ j. ⟦<Course as Deserialize<'de, R>>⟧.reads human lends j v.course) (Absent ⟦<Course as Deserialize<'de, R>>⟧.absent v.course)
        (Field (λ j. ⟦<Vec<(u8, String)> as Deserialize<'de, R>>⟧.reads human lends j v.crew)
        (Absent ⟦<Vec<(u8, String)> as Deserialize<'de, R>>⟧.absent v.crew)
        (Field (λ j. ⟦<u128 as Deserialize<'de, R>>⟧.reads human lends j v.seal) (Absent ⟦<u128 as Deserialize<'de, R>>⟧.absent v.seal)
        (Field (λ j. ⟦<() as Deserialize<'de, R>>⟧.reads human lends j v.nothing) (Absent ⟦<() as Deserialize<'de, R>>⟧.absent v.nothing)
        (Field (λ j. ⟦<char as Deserialize<'de, R>>⟧.reads human lends j v.flag) (Absent ⟦<char as Deserialize<'de, R>>⟧.absent v.flag)
        (Field (λ j. ⟦<Spot as Deserialize<'de, R>>⟧.reads human lends j v.spot) (Absent ⟦<Spot as Deserialize<'de, R>>⟧.absent v.spot)
        (Field (λ j. ⟦<BTreeMap<String, u64> as Deserialize<'de, R>>⟧.reads human lends j v.cargo)
        (Absent ⟦<BTreeMap<String, u64> as Deserialize<'de, R>>⟧.absent v.cargo)
        (Field (λ j. ⟦<[u16; 3] as Deserialize<'de, R>>⟧.reads human lends j v.depths) (Absent ⟦<[u16; 3] as Deserialize<'de, R>>⟧.absent v.depths)
        (Field (λ j. ⟦<Option<Spot> as Deserialize<'de, R>>⟧.reads human lends j v.last) (Absent ⟦<Option<Spot> as Deserialize<'de, R>>⟧.absent v.last)
        (Field (λ j. ⟦<ByteBuf as Deserialize<'de, R>>⟧.reads human lends j v.chart) (Absent ⟦<ByteBuf as Deserialize<'de, R>>⟧.absent v.chart)
        (Field (λ j. ⟦<(i64, Option<bool>) as Deserialize<'de, R>>⟧.reads human lends j v.pair)
        (Absent ⟦<(i64, Option<bool>) as Deserialize<'de, R>>⟧.absent v.pair)
        (Field (λ j. ⟦<Option<String> as Deserialize<'de, R>>⟧.reads human lends j v.owner)
        (Absent ⟦<Option<String> as Deserialize<'de, R>>⟧.absent v.owner)
        (Field (λ j. ⟦<u32 as Deserialize<'de, R>>⟧.reads human lends j v.tonnage) (Absent ⟦<u32 as Deserialize<'de, R>>⟧.absent v.tonnage)
        (Field (λ j. ⟦<F64Bits as Deserialize<'de, R>>⟧.reads human lends j v.draught) (Absent ⟦<F64Bits as Deserialize<'de, R>>⟧.absent v.draught)
        (Field (λ j. ⟦<Vec<String> as Deserialize<'de, R>>⟧.reads human lends j v.ports) (Absent ⟦<Vec<String> as Deserialize<'de, R>>⟧.absent v.ports)
        (Field (λ j. ⟦<i16 as Deserialize<'de, R>>⟧.reads human lends j v.heading) (Absent ⟦<i16 as Deserialize<'de, R>>⟧.absent v.heading)
        (Field (λ j. ⟦<i128 as Deserialize<'de, R>>⟧.reads human lends j v.debt) (Absent ⟦<i128 as Deserialize<'de, R>>⟧.absent v.debt)
        (Field (λ j. ⟦<BTreeSet<u16> as Deserialize<'de, R>>⟧.reads human lends j v.berths)
        (Absent ⟦<BTreeSet<u16> as Deserialize<'de, R>>⟧.absent v.berths)
        (Field (λ j. ⟦<bool as Deserialize<'de, R>>⟧.reads human lends j v.done) (Absent ⟦<bool as Deserialize<'de, R>>⟧.absent v.done)
        NoField)))))))))))))))))))) m };

    ghost absent = { None };

    ghost refuses = { RefusesFields (codes "ship" ∷ (codes "course"
        ∷ (codes "crew" ∷ (codes "seal" ∷ (codes "nothing"
        ∷ (codes "flag" ∷ (codes "spot" ∷ (codes "cargo" ∷
        (codes "depths" ∷ (codes "last" ∷ (codes "chart" ∷
        (codes "pair" ∷ (codes "owner" ∷ (codes "tonnage" ∷
        (codes "draught" ∷ (codes "ports" ∷ (codes "heading" ∷ (codes "debt" ∷ (codes "berths" ∷ (codes "done" ∷ []))))))))))))))))))))
        (
        is_none ⟦<String as Deserialize<'de, R>>⟧.absent ∷ (
        is_none ⟦<Course as Deserialize<'de, R>>⟧.absent ∷ (
        is_none ⟦<Vec<(u8, String)> as Deserialize<'de, R>>⟧.absent ∷ (
        is_none ⟦<u128 as Deserialize<'de, R>>⟧.absent ∷ (
        is_none ⟦<() as Deserialize<'de, R>>⟧.absent ∷ (
        is_none ⟦<char as Deserialize<'de, R>>⟧.absent ∷ (
        is_none ⟦<Spot as Deserialize<'de, R>>⟧.absent ∷ (
        is_none ⟦<BTreeMap<String, u64> as Deserialize<'de, R>>⟧.absent ∷ (
        is_none ⟦<[u16; 3] as Deserialize<'de, R>>⟧.absent ∷ (
        is_none ⟦<Option<Spot> as Deserialize<'de, R>>⟧.absent ∷ (
        is_none ⟦<ByteBuf as Deserialize<'de, R>>⟧.absent ∷ (
        is_none ⟦<(i64, Option<bool>) as Deserialize<'de, R>>⟧.absent ∷ (
        is_none ⟦<Option<String> as Deserialize<'de, R>>⟧.absent ∷ (
        is_none ⟦<u32 as Deserialize<'de, R>>⟧.absent ∷ (
        is_none ⟦<F64Bits as Deserialize<'de, R>>⟧.absent ∷ (
        is_none ⟦<Vec<String> as Deserialize<'de, R>>⟧.absent ∷ (
        is_none ⟦<i16 as Deserialize<'de, R>>⟧.absent ∷ (
        is_none ⟦<i128 as Deserialize<'de, R>>⟧.absent ∷ (
        is_none ⟦<BTreeSet<u16> as Deserialize<'de, R>>⟧.absent ∷ (
        is_none ⟦<bool as Deserialize<'de, R>>⟧.absent ∷ []))))))))))))))))))))
        (
        part_of ⟦<String as Deserialize<'de, R>>⟧.reads ⟦<String as Deserialize<'de, R>>⟧.refuses ∷ (
        part_of ⟦<Course as Deserialize<'de, R>>⟧.reads ⟦<Course as Deserialize<'de, R>>⟧.refuses ∷ (
        part_of ⟦<Vec<(u8, String)> as Deserialize<'de, R>>⟧.reads ⟦<Vec<(u8, String)> as Deserialize<'de, R>>⟧.refuses ∷ (
        part_of ⟦<u128 as Deserialize<'de, R>>⟧.reads ⟦<u128 as Deserialize<'de, R>>⟧.refuses ∷ (
        part_of ⟦<() as Deserialize<'de, R>>⟧.reads ⟦<() as Deserialize<'de, R>>⟧.refuses ∷ (
        part_of ⟦<char as Deserialize<'de, R>>⟧.reads ⟦<char as Deserialize<'de, R>>⟧.refuses ∷ (
        part_of ⟦<Spot as Deserialize<'de, R>>⟧.reads ⟦<Spot as Deserialize<'de, R>>⟧.refuses ∷ (
        part_of ⟦<BTreeMap<String, u64> as Deserialize<'de, R>>⟧.reads ⟦<BTreeMap<String, u64> as Deserialize<'de, R>>⟧.refuses ∷ (
        part_of ⟦<[u16; 3] as Deserialize<'de, R>>⟧.reads ⟦<[u16; 3] as Deserialize<'de, R>>⟧.refuses ∷ (
        part_of ⟦<Option<Spot> as Deserialize<'de, R>>⟧.reads ⟦<Option<Spot> as Deserialize<'de, R>>⟧.refuses ∷ (
        part_of ⟦<ByteBuf as Deserialize<'de, R>>⟧.reads ⟦<ByteBuf as Deserialize<'de, R>>⟧.refuses ∷ (
        part_of ⟦<(i64, Option<bool>) as Deserialize<'de, R>>⟧.reads ⟦<(i64, Option<bool>) as Deserialize<'de, R>>⟧.refuses ∷ (
        part_of ⟦<Option<String> as Deserialize<'de, R>>⟧.reads ⟦<Option<String> as Deserialize<'de, R>>⟧.refuses ∷ (
        part_of ⟦<u32 as Deserialize<'de, R>>⟧.reads ⟦<u32 as Deserialize<'de, R>>⟧.refuses ∷ (
        part_of ⟦<F64Bits as Deserialize<'de, R>>⟧.reads ⟦<F64Bits as Deserialize<'de, R>>⟧.refuses ∷ (
        part_of ⟦<Vec<String> as Deserialize<'de, R>>⟧.reads ⟦<Vec<String> as Deserialize<'de, R>>⟧.refuses ∷ (
        part_of ⟦<i16 as Deserialize<'de, R>>⟧.reads ⟦<i16 as Deserialize<'de, R>>⟧.refuses ∷ (
        part_of ⟦<i128 as Deserialize<'de, R>>⟧.reads ⟦<i128 as Deserialize<'de, R>>⟧.refuses ∷ (
        part_of ⟦<BTreeSet<u16> as Deserialize<'de, R>>⟧.reads ⟦<BTreeSet<u16> as Deserialize<'de, R>>⟧.refuses ∷ (
        part_of ⟦<bool as Deserialize<'de, R>>⟧.reads ⟦<bool as Deserialize<'de, R>>⟧.refuses ∷ [])))))))))))))))))))) };

    fn deserialize<C: SerializerConfig>(
        de: &mut Deserializer<R, C>,
    ) -> Result<Manifest, rmp_decode::Error> {
        let read: Result<
            EightThen<
                String,
                Course,
                Vec<(u8, String)>,
                u128,
                (),
                char,
                Spot,
                BTreeMap<String, u64>,
                EightThen<
                    [u16; 3],
                    Option<Spot>,
                    ByteBuf,
                    (i64, Option<bool>),
                    Option<String>,
                    u32,
                    F64Bits,
                    Vec<String>,
                    (i16, i128, BTreeSet<u16>, bool, ()),
                >,
            >,
            rmp_decode::Error,
        > = de.deserialize_fields(&[
            "ship", "course", "crew", "seal", "nothing", "flag", "spot", "cargo", "depths", "last",
            "chart", "pair", "owner", "tonnage", "draught", "ports", "heading", "debt", "berths",
            "done",
        ]);
        match read {
            Ok(parts) => {
                let EightThen {
                    first: ship,
                    second: course,
                    third: crew,
                    fourth: seal,
                    fifth: nothing,
                    sixth: flag,
                    seventh: spot,
                    eighth: cargo,
                    rest: others,
                } = parts;
                let EightThen {
                    first: depths,
                    second: last,
                    third: chart,
                    fourth: pair,
                    fifth: owner,
                    sixth: tonnage,
                    seventh: draught,
                    eighth: ports,
                    rest: others,
                } = others;
                let (heading, debt, berths, done, ()) = others;
                return Ok(Manifest {
                    ship,
                    course,
                    crew,
                    seal,
                    nothing,
                    flag,
                    spot,
                    cargo,
                    depths,
                    last,
                    chart,
                    pair,
                    owner,
                    tonnage,
                    draught,
                    ports,
                    heading,
                    debt,
                    berths,
                    done,
                });
            }
            Err(e) => return Err(e),
        }
    }

    fn missing() -> Option<Manifest> {
        None
    }
}

impl<'de, R: ReadSlice<'de>> RoundTrip<'de, R> for Manifest {
    ghost use Rattle.test_mixed.specs.contracts.mixed.derived.CourseRoundTrip.TheImpl.Laws as course_rounds;
    ghost use Rattle.test_mixed.specs.contracts.mixed.derived.SpotNeverNil.TheImpl.Laws as spot_other;
    ghost use Rattle.test_mixed.specs.contracts.mixed.derived.SpotRoundTrip.TheImpl.Laws as spot_rounds;
    ghost use mir.Syntax.{given};

    ghost has_data = { λ human v. structure_all ((codes "ship", ⟦<String as Serialize>⟧.data_of v.ship human)
        ∷ ((codes "course", ⟦<Course as Serialize>⟧.data_of v.course human)
        ∷ ((codes "crew", ⟦<Vec<(u8, String)> as Serialize>⟧.data_of v.crew human)
        ∷ ((codes "seal", ⟦<u128 as Serialize>⟧.data_of v.seal human)
        ∷ ((codes "nothing", ⟦<() as Serialize>⟧.data_of v.nothing human)
        ∷ ((codes "flag", ⟦<char as Serialize>⟧.data_of v.flag human)
        ∷ ((codes "spot", ⟦<Spot as Serialize>⟧.data_of v.spot human)
        ∷ ((codes "cargo", ⟦<BTreeMap<String, u64> as Serialize>⟧.data_of v.cargo human)
        ∷ ((codes "depths", ⟦<[u16; 3] as Serialize>⟧.data_of v.depths human)
        ∷ ((codes "last", ⟦<Option<Spot> as Serialize>⟧.data_of v.last human)
        ∷ ((codes "chart", ⟦<ByteBuf as Serialize>⟧.data_of v.chart human)
        ∷ ((codes "pair", ⟦<(i64, Option<bool>) as Serialize>⟧.data_of v.pair human)
        ∷ ((codes "owner", ⟦<Option<String> as Serialize>⟧.data_of v.owner human)
        ∷ ((codes "tonnage", ⟦<u32 as Serialize>⟧.data_of v.tonnage human)
        ∷ ((codes "draught", ⟦<F64Bits as Serialize>⟧.data_of v.draught human)
        ∷ ((codes "ports", ⟦<Vec<String> as Serialize>⟧.data_of v.ports human)
        ∷ ((codes "heading", ⟦<i16 as Serialize>⟧.data_of v.heading human)
        ∷ ((codes "debt", ⟦<i128 as Serialize>⟧.data_of v.debt human)
        ∷ ((codes "berths", ⟦<BTreeSet<u16> as Serialize>⟧.data_of v.berths human)
        ∷ ((codes "done", ⟦<bool as Serialize>⟧.data_of v.done human) ∷ [])))))))))))))))))))) (
          refl,
          (
            (course_rounds.has_data-law R.row R.ReadSlice.own (given 0) R.Source (given 0) human v.course),
            (
              (slice_some _ (each_some (λ x. ⟦<(u8, String) as Serialize>⟧.data_of x human)
                  (λ x2. (tuple_all (⟦<u8 as Serialize>⟧.data_of x2.0 human ∷ (⟦<String as Serialize>⟧.data_of x2.1 human ∷ [])) (refl, (refl, tt)))) v.crew.items)),
              (
                refl,
                (
                  refl,
                  (
                    refl,
                    (
                      (spot_rounds.has_data-law R.row R.ReadSlice.own (given 0) R.Source (given 0) human v.spot),
                      (
                        (mapping_some (λ x. ⟦<String as Serialize>⟧.data_of x human) (λ x. ⟦<u64 as Serialize>⟧.data_of x human) (λ x4. refl) (λ x4. refl)
                            v.cargo.entries),
                        (
                          (tuple_some _ (each_some (λ x. ⟦<u16 as Serialize>⟧.data_of x human) (λ x5. refl) v.depths)),
                          (
                            (option_some (λ x. ⟦<Spot as Serialize>⟧.data_of x human)
                                (λ x6. (spot_rounds.has_data-law R.row R.ReadSlice.own (given 0) R.Source (given 0) human x6)) v.last),
                            (
                              refl,
                              (
                                (tuple_all (⟦<i64 as Serialize>⟧.data_of v.pair.0 human ∷ (⟦<Option<bool> as Serialize>⟧.data_of v.pair.1 human ∷ []))
                                    (refl, ((option_some (λ x. ⟦<bool as Serialize>⟧.data_of x human) (λ x8. refl) v.pair.1), tt))),
                                (
                                  (option_some (λ x. ⟦<String as Serialize>⟧.data_of x human) (λ x9. refl) v.owner),
                                  (
                                    refl,
                                    (
                                      refl,
                                      (
                                        (slice_some _ (each_some (λ x. ⟦<String as Serialize>⟧.data_of x human) (λ x10. refl) v.ports.items)),
                                        (refl, (refl, ((sequence_some _ (each_some (λ x. ⟦<u16 as Serialize>⟧.data_of x human) (λ x11. refl) v.berths.keys)), (refl, tt)))),
                                      ),
                                    ),
                                  ),
                                ),
                              ),
                            ),
                          ),
                        ),
                      ),
                    ),
                  ),
                ),
              ),
            ),
          ),
        ) };

    ghost round = { λ lent s v fits. structure_row s (codes "ship"
        ∷ (codes "course" ∷ (codes "crew" ∷ (codes "seal" ∷
        (codes "nothing" ∷ (codes "flag" ∷ (codes "spot" ∷
        (codes "cargo" ∷ (codes "depths" ∷ (codes "last" ∷
        (codes "chart" ∷ (codes "pair" ∷ (codes "owner" ∷ (codes "tonnage"
        ∷ (codes "draught" ∷ (codes "ports" ∷ (codes "heading" ∷ (codes "debt" ∷ (codes "berths" ∷ (codes "done" ∷ [])))))))))))))))))))) _ _ refl
        (fields_cons s (codes "ship") _ _ _ (λ j. ⟦<String as Deserialize<'de, R>>⟧.reads s.human R.lends j v.ship)
        (Absent ⟦<String as Deserialize<'de, R>>⟧.absent v.ship) _ (string_row s (string_bytes v.ship))
        (fields_cons s (codes "course") _ _ _ (λ j. ⟦<Course as Deserialize<'de, R>>⟧.reads s.human R.lends j v.course)
        (Absent ⟦<Course as Deserialize<'de, R>>⟧.absent v.course) _
        (course_rounds.round-law R.row R.ReadSlice.own (given 0) R.Source (given 0) (λ e. cc) s v.course fits.1)
        (fields_cons s (codes "crew") _ _ _ (λ j. ⟦<Vec<(u8, String)> as Deserialize<'de, R>>⟧.reads s.human R.lends j v.crew)
        (Absent ⟦<Vec<(u8, String)> as Deserialize<'de, R>>⟧.absent v.crew) _
        (slice_row s _ (λ ms. ReadsEach (⟦<(u8, String) as Deserialize<'de, R>>⟧.reads s.human R.lends) ms v.crew.items)
        (each_row s (λ x. ⟦<(u8, String) as Serialize>⟧.data_of x s.human) ⟦<(u8, String) as Serialize>⟧.is_value
        (⟦<(u8, String) as Deserialize<'de, R>>⟧.reads s.human R.lends)
        (λ x12 h12. (tuple_row s _ _ (rows_cons s _ _ (λ j. ⟦<u8 as Deserialize<'de, R>>⟧.reads s.human R.lends j x12.0) _ (byte_row s x12.0 h12.0)
        (rows_cons s _ _ (λ j. ⟦<String as Deserialize<'de, R>>⟧.reads s.human R.lends j x12.1) _ (string_row s (string_bytes x12.1)) (rows_none s)))))
        v.crew.items fits.2)) (fields_cons s (codes "seal") _ _ _ (λ j. ⟦<u128 as Deserialize<'de, R>>⟧.reads s.human R.lends j v.seal)
        (Absent ⟦<u128 as Deserialize<'de, R>>⟧.absent v.seal) _ (unsigned128_row s v.seal fits.3)
        (fields_cons s (codes "nothing") _ _ _ (λ j. ⟦<() as Deserialize<'de, R>>⟧.reads s.human R.lends j v.nothing)
        (Absent ⟦<() as Deserialize<'de, R>>⟧.absent v.nothing) _ (unit_row s)
        (fields_cons s (codes "flag") _ _ _ (λ j. ⟦<char as Deserialize<'de, R>>⟧.reads s.human R.lends j v.flag)
        (Absent ⟦<char as Deserialize<'de, R>>⟧.absent v.flag) _ (char_row s v.flag fits.5)
        (fields_cons s (codes "spot") _ _ _ (λ j. ⟦<Spot as Deserialize<'de, R>>⟧.reads s.human R.lends j v.spot)
        (Absent ⟦<Spot as Deserialize<'de, R>>⟧.absent v.spot) _
        (spot_rounds.round-law R.row R.ReadSlice.own (given 0) R.Source (given 0) (λ e. cc) s v.spot fits.6)
        (fields_cons s (codes "cargo") _ _ _ (λ j. ⟦<BTreeMap<String, u64> as Deserialize<'de, R>>⟧.reads s.human R.lends j v.cargo)
        (Absent ⟦<BTreeMap<String, u64> as Deserialize<'de, R>>⟧.absent v.cargo) _
        (map_row s (λ x. ⟦<String as Serialize>⟧.data_of x s.human) (λ x. ⟦<u64 as Serialize>⟧.data_of x s.human) ⟦<String as Serialize>⟧.is_value
        ⟦<u64 as Serialize>⟧.is_value (⟦<String as Deserialize<'de, R>>⟧.reads s.human R.lends) (⟦<u64 as Deserialize<'de, R>>⟧.reads s.human R.lends)
        (λ x13 h13. (string_row s (string_bytes x13))) (λ x14 h14. (unsigned_row_64 s x14 h14)) (on_total (λ x. string_bytes x) nat_list_cmp_total)
        v.cargo.entries fits.7.1 fits.7.0) (fields_cons s (codes "depths") _ _ _ (λ j. ⟦<[u16; 3] as Deserialize<'de, R>>⟧.reads s.human R.lends j v.depths)
        (Absent ⟦<[u16; 3] as Deserialize<'de, R>>⟧.absent v.depths) _
        (tuple_row s _ (Exactly 3 (⟦<u16 as Deserialize<'de, R>>⟧.reads s.human R.lends) v.depths)
        (rows_map s _ _ _ (λ ms each. (fits.8.0, each)) (each_row s (λ x. ⟦<u16 as Serialize>⟧.data_of x s.human) ⟦<u16 as Serialize>⟧.is_value
        (⟦<u16 as Deserialize<'de, R>>⟧.reads s.human R.lends) (λ x15 h15. (unsigned_row_16 s x15 h15)) v.depths fits.8.1)))
        (fields_cons s (codes "last") _ _ _ (λ j. ⟦<Option<Spot> as Deserialize<'de, R>>⟧.reads s.human R.lends j v.last)
        (Absent ⟦<Option<Spot> as Deserialize<'de, R>>⟧.absent v.last) _
        (option_row s (λ x. ⟦<Spot as Serialize>⟧.data_of x s.human) ⟦<Spot as Serialize>⟧.is_value (⟦<Spot as Deserialize<'de, R>>⟧.reads s.human R.lends)
        (λ x17. spot_other.never_nil-law s x17) (λ x16 h16. (spot_rounds.round-law R.row R.ReadSlice.own (given 0) R.Source (given 0) (λ e. cc) s x16 h16))
        v.last fits.9) (fields_cons s (codes "chart") _ _ _ (λ j. ⟦<ByteBuf as Deserialize<'de, R>>⟧.reads s.human R.lends j v.chart)
        (Absent ⟦<ByteBuf as Deserialize<'de, R>>⟧.absent v.chart) _ (buffer_row s (buffer_bytes v.chart))
        (fields_cons s (codes "pair") _ _ _ (λ j. ⟦<(i64, Option<bool>) as Deserialize<'de, R>>⟧.reads s.human R.lends j v.pair)
        (Absent ⟦<(i64, Option<bool>) as Deserialize<'de, R>>⟧.absent v.pair) _
        (tuple_row s _ _ (rows_cons s _ _ (λ j. ⟦<i64 as Deserialize<'de, R>>⟧.reads s.human R.lends j v.pair.0) _ (signed_row_64 s v.pair.0 fits.11.0)
        (rows_cons s _ _ (λ j. ⟦<Option<bool> as Deserialize<'de, R>>⟧.reads s.human R.lends j v.pair.1) _
        (option_row s (λ x. ⟦<bool as Serialize>⟧.data_of x s.human) ⟦<bool as Serialize>⟧.is_value (⟦<bool as Deserialize<'de, R>>⟧.reads s.human R.lends)
        (λ x19. truth_other s x19) (λ x18 h18. (truth_row s x18)) v.pair.1 fits.11.1) (rows_none s))))
        (fields_cons s (codes "owner") _ _ _ (λ j. ⟦<Option<String> as Deserialize<'de, R>>⟧.reads s.human R.lends j v.owner)
        (Absent ⟦<Option<String> as Deserialize<'de, R>>⟧.absent v.owner) _
        (option_row s (λ x. ⟦<String as Serialize>⟧.data_of x s.human) ⟦<String as Serialize>⟧.is_value
        (⟦<String as Deserialize<'de, R>>⟧.reads s.human R.lends) (λ x21. text_other s (string_bytes x21)) (λ x20 h20. (string_row s (string_bytes x20)))
        v.owner fits.12) (fields_cons s (codes "tonnage") _ _ _ (λ j. ⟦<u32 as Deserialize<'de, R>>⟧.reads s.human R.lends j v.tonnage)
        (Absent ⟦<u32 as Deserialize<'de, R>>⟧.absent v.tonnage) _ (unsigned_row_32 s v.tonnage fits.13)
        (fields_cons s (codes "draught") _ _ _ (λ j. ⟦<F64Bits as Deserialize<'de, R>>⟧.reads s.human R.lends j v.draught)
        (Absent ⟦<F64Bits as Deserialize<'de, R>>⟧.absent v.draught) _ (float64_row s v.draught.0)
        (fields_cons s (codes "ports") _ _ _ (λ j. ⟦<Vec<String> as Deserialize<'de, R>>⟧.reads s.human R.lends j v.ports)
        (Absent ⟦<Vec<String> as Deserialize<'de, R>>⟧.absent v.ports) _
        (slice_row s _ (λ ms. ReadsEach (⟦<String as Deserialize<'de, R>>⟧.reads s.human R.lends) ms v.ports.items)
        (each_row s (λ x. ⟦<String as Serialize>⟧.data_of x s.human) ⟦<String as Serialize>⟧.is_value
        (⟦<String as Deserialize<'de, R>>⟧.reads s.human R.lends) (λ x22 h22. (string_row s (string_bytes x22))) v.ports.items fits.15))
        (fields_cons s (codes "heading") _ _ _ (λ j. ⟦<i16 as Deserialize<'de, R>>⟧.reads s.human R.lends j v.heading)
        (Absent ⟦<i16 as Deserialize<'de, R>>⟧.absent v.heading) _ (signed_row_16 s v.heading fits.16)
        (fields_cons s (codes "debt") _ _ _ (λ j. ⟦<i128 as Deserialize<'de, R>>⟧.reads s.human R.lends j v.debt)
        (Absent ⟦<i128 as Deserialize<'de, R>>⟧.absent v.debt) _ (signed128_row s v.debt fits.17)
        (fields_cons s (codes "berths") _ _ _ (λ j. ⟦<BTreeSet<u16> as Deserialize<'de, R>>⟧.reads s.human R.lends j v.berths)
        (Absent ⟦<BTreeSet<u16> as Deserialize<'de, R>>⟧.absent v.berths) _
        (set_row s (λ x. ⟦<u16 as Serialize>⟧.data_of x s.human) ⟦<u16 as Serialize>⟧.is_value (⟦<u16 as Deserialize<'de, R>>⟧.reads s.human R.lends)
        (λ x23 h23. (unsigned_row_16 s x23 h23)) ⟦<u16 as Ord>⟧.cmp v.berths.keys fits.18.1 fits.18.0)
        (fields_cons s (codes "done") _ _ _ (λ j. ⟦<bool as Deserialize<'de, R>>⟧.reads s.human R.lends j v.done)
        (Absent ⟦<bool as Deserialize<'de, R>>⟧.absent v.done) _ (truth_row s v.done) (fields_none s))))))))))))))))))))) };

    ghost same = { λ v w. ⟦<String as RoundTrip<'de, R>>⟧.same v.ship w.ship × ⟦<Course as RoundTrip<'de, R>>⟧.same v.course w.course
        × ⟦<Vec<(u8, String)> as RoundTrip<'de, R>>⟧.same v.crew w.crew × ⟦<u128 as RoundTrip<'de, R>>⟧.same v.seal w.seal
        × ⟦<() as RoundTrip<'de, R>>⟧.same v.nothing w.nothing × ⟦<char as RoundTrip<'de, R>>⟧.same v.flag w.flag
        × ⟦<Spot as RoundTrip<'de, R>>⟧.same v.spot w.spot × ⟦<BTreeMap<String, u64> as RoundTrip<'de, R>>⟧.same v.cargo w.cargo
        × ⟦<[u16; 3] as RoundTrip<'de, R>>⟧.same v.depths w.depths × ⟦<Option<Spot> as RoundTrip<'de, R>>⟧.same v.last w.last
        × ⟦<ByteBuf as RoundTrip<'de, R>>⟧.same v.chart w.chart × ⟦<(i64, Option<bool>) as RoundTrip<'de, R>>⟧.same v.pair w.pair
        × ⟦<Option<String> as RoundTrip<'de, R>>⟧.same v.owner w.owner × ⟦<u32 as RoundTrip<'de, R>>⟧.same v.tonnage w.tonnage
        × ⟦<F64Bits as RoundTrip<'de, R>>⟧.same v.draught w.draught × ⟦<Vec<String> as RoundTrip<'de, R>>⟧.same v.ports w.ports
        × ⟦<i16 as RoundTrip<'de, R>>⟧.same v.heading w.heading × ⟦<i128 as RoundTrip<'de, R>>⟧.same v.debt w.debt
        × ⟦<BTreeSet<u16> as RoundTrip<'de, R>>⟧.same v.berths w.berths × ⟦<bool as RoundTrip<'de, R>>⟧.same v.done w.done };

    ghost alike = { λ human v w h i. structure_of ((codes "ship", (text_alike (string_bytes v.ship) (string_bytes w.ship) h.0 i))
        ∷ ((codes "course", (course_rounds.alike-law R.row R.ReadSlice.own (given 0) R.Source (given 0) human v.course w.course h.1 i))
        ∷ ((
          codes "crew",
          (slice_alike ⟦<(u8, String) as RoundTrip<'de, R>>⟧.same (λ x. ⟦<(u8, String) as Serialize>⟧.data_of x human)
              (λ x13 yx13 h13 i. (tuple_of ((⟦<u8 as Serialize>⟧.data_of (h13.0 i) human)
              ∷ ((text_alike (string_bytes x13.1) (string_bytes yx13.1) h13.1 i) ∷ [])))) v.crew.items w.crew.items h.2 i),
        )
        ∷ ((codes "seal", (⟦<u128 as Serialize>⟧.data_of (h.3 i) human))
        ∷ ((codes "nothing", (unit_alike i)) ∷ ((codes "flag", (⟦<char as Serialize>⟧.data_of (h.5 i) human))
        ∷ ((codes "spot", (spot_rounds.alike-law R.row R.ReadSlice.own (given 0) R.Source (given 0) human v.spot w.spot h.6 i))
        ∷ ((
          codes "cargo",
          (mapping_alike ⟦<String as RoundTrip<'de, R>>⟧.same (λ x. ⟦<String as Serialize>⟧.data_of x human)
              (λ x14 yx14 h14 i. (text_alike (string_bytes x14) (string_bytes yx14) h14 i)) ⟦<u64 as RoundTrip<'de, R>>⟧.same
              (λ x. ⟦<u64 as Serialize>⟧.data_of x human) (λ x15 yx15 h15 i. (⟦<u64 as Serialize>⟧.data_of (h15 i) human)) v.cargo.entries w.cargo.entries h.7 i),
        )
        ∷ ((
          codes "depths",
          (array_alike ⟦<u16 as RoundTrip<'de, R>>⟧.same (λ x. ⟦<u16 as Serialize>⟧.data_of x human)
              (λ x16 yx16 h16 i. (⟦<u16 as Serialize>⟧.data_of (h16 i) human)) v.depths w.depths h.8 i),
        )
        ∷ ((
          codes "last",
          (option_alike ⟦<Spot as RoundTrip<'de, R>>⟧.same (λ x. ⟦<Spot as Serialize>⟧.data_of x human)
              (λ x17 yx17 h17 i. (spot_rounds.alike-law R.row R.ReadSlice.own (given 0) R.Source (given 0) human x17 yx17 h17 i)) v.last w.last h.9 i),
        )
        ∷ ((codes "chart", (bytes_alike (buffer_bytes v.chart) (buffer_bytes w.chart) h.10 i))
        ∷ ((
          codes "pair",
          (tuple_of ((⟦<i64 as Serialize>⟧.data_of (h.11.0 i) human)
              ∷ ((option_alike ⟦<bool as RoundTrip<'de, R>>⟧.same (λ x. ⟦<bool as Serialize>⟧.data_of x human)
              (λ x18 yx18 h18 i. (⟦<bool as Serialize>⟧.data_of (h18 i) human)) v.pair.1 w.pair.1 h.11.1 i) ∷ []))),
        )
        ∷ ((
          codes "owner",
          (option_alike ⟦<String as RoundTrip<'de, R>>⟧.same (λ x. ⟦<String as Serialize>⟧.data_of x human)
              (λ x19 yx19 h19 i. (text_alike (string_bytes x19) (string_bytes yx19) h19 i)) v.owner w.owner h.12 i),
        )
        ∷ ((codes "tonnage", (⟦<u32 as Serialize>⟧.data_of (h.13 i) human))
        ∷ ((codes "draught", (float64_alike v.draught.0 w.draught.0 h.14 i))
        ∷ ((
          codes "ports",
          (slice_alike ⟦<String as RoundTrip<'de, R>>⟧.same (λ x. ⟦<String as Serialize>⟧.data_of x human)
              (λ x20 yx20 h20 i. (text_alike (string_bytes x20) (string_bytes yx20) h20 i)) v.ports.items w.ports.items h.15 i),
        )
        ∷ ((codes "heading", (⟦<i16 as Serialize>⟧.data_of (h.16 i) human))
        ∷ ((codes "debt", (⟦<i128 as Serialize>⟧.data_of (h.17 i) human))
        ∷ ((
          codes "berths",
          (sequence_alike ⟦<u16 as RoundTrip<'de, R>>⟧.same (λ x. ⟦<u16 as Serialize>⟧.data_of x human)
              (λ x21 yx21 h21 i. (⟦<u16 as Serialize>⟧.data_of (h21 i) human)) v.berths.keys w.berths.keys h.18 i),
        )
        ∷ ((codes "done", (⟦<bool as Serialize>⟧.data_of (h.19 i) human)) ∷ [])))))))))))))))))))) };

    ghost only = { λ s v fits. lowers_then s _ _ (λ m. (w : _) → (⟦<Manifest as Deserialize<'de, R>>⟧.reads s.human R.lends) m w
        → ⟦<String as RoundTrip<'de, R>>⟧.same v.ship w.ship × ⟦<Course as RoundTrip<'de, R>>⟧.same v.course w.course
        × ⟦<Vec<(u8, String)> as RoundTrip<'de, R>>⟧.same v.crew w.crew × ⟦<u128 as RoundTrip<'de, R>>⟧.same v.seal w.seal
        × ⟦<() as RoundTrip<'de, R>>⟧.same v.nothing w.nothing × ⟦<char as RoundTrip<'de, R>>⟧.same v.flag w.flag
        × ⟦<Spot as RoundTrip<'de, R>>⟧.same v.spot w.spot × ⟦<BTreeMap<String, u64> as RoundTrip<'de, R>>⟧.same v.cargo w.cargo
        × ⟦<[u16; 3] as RoundTrip<'de, R>>⟧.same v.depths w.depths × ⟦<Option<Spot> as RoundTrip<'de, R>>⟧.same v.last w.last
        × ⟦<ByteBuf as RoundTrip<'de, R>>⟧.same v.chart w.chart × ⟦<(i64, Option<bool>) as RoundTrip<'de, R>>⟧.same v.pair w.pair
        × ⟦<Option<String> as RoundTrip<'de, R>>⟧.same v.owner w.owner × ⟦<u32 as RoundTrip<'de, R>>⟧.same v.tonnage w.tonnage
        × ⟦<F64Bits as RoundTrip<'de, R>>⟧.same v.draught w.draught × ⟦<Vec<String> as RoundTrip<'de, R>>⟧.same v.ports w.ports
        × ⟦<i16 as RoundTrip<'de, R>>⟧.same v.heading w.heading × ⟦<i128 as RoundTrip<'de, R>>⟧.same v.debt w.debt
        × ⟦<BTreeSet<u16> as RoundTrip<'de, R>>⟧.same v.berths w.berths × ⟦<bool as RoundTrip<'de, R>>⟧.same v.done w.done)
        (structure_row s (codes "ship" ∷ (codes "course" ∷
        (codes "crew" ∷ (codes "seal" ∷ (codes "nothing" ∷
        (codes "flag" ∷ (codes "spot" ∷ (codes "cargo" ∷ (codes "depths"
        ∷ (codes "last" ∷ (codes "chart" ∷ (codes "pair" ∷
        (codes "owner" ∷ (codes "tonnage" ∷ (codes "draught"
        ∷ (codes "ports" ∷ (codes "heading" ∷ (codes "debt" ∷ (codes "berths" ∷ (codes "done" ∷ [])))))))))))))))))))) _ _ refl
        (fields_cons s (codes "ship") _ _ _ (λ j. Only (⟦<String as Deserialize<'de, R>>⟧.reads s.human R.lends) ⟦<String as RoundTrip<'de, R>>⟧.same j
        v.ship) ⊥ _ (string_only s (λ w. string_bytes w) (string_bytes v.ship))
        (fields_cons s (codes "course") _ _ _ (λ j. Only (⟦<Course as Deserialize<'de, R>>⟧.reads s.human R.lends) ⟦<Course as RoundTrip<'de, R>>⟧.same j
        v.course) ⊥ _ (course_rounds.only-law R.row R.ReadSlice.own (given 0) R.Source (given 0) s v.course fits.1)
        (fields_cons s (codes "crew") _ _ _ (λ j. Only (⟦<Vec<(u8, String)> as Deserialize<'de, R>>⟧.reads s.human R.lends)
        ⟦<Vec<(u8, String)> as RoundTrip<'de, R>>⟧.same j v.crew) ⊥ _
        (list_only s _ (λ w. w.items) (⟦<(u8, String) as Deserialize<'de, R>>⟧.reads s.human R.lends) ⟦<(u8, String) as RoundTrip<'de, R>>⟧.same
        v.crew.items (slice_row s _ (λ ms. ReadsEach (Only (⟦<(u8, String) as Deserialize<'de, R>>⟧.reads s.human R.lends)
        ⟦<(u8, String) as RoundTrip<'de, R>>⟧.same) ms v.crew.items)
        (each_row s (λ x. ⟦<(u8, String) as Serialize>⟧.data_of x s.human) ⟦<(u8, String) as Serialize>⟧.is_value
        (Only (⟦<(u8, String) as Deserialize<'de, R>>⟧.reads s.human R.lends) ⟦<(u8, String) as RoundTrip<'de, R>>⟧.same)
        (λ x1 h1. (lowers_then s _ _ (λ j. Only (⟦<(u8, String) as Deserialize<'de, R>>⟧.reads s.human R.lends) ⟦<(u8, String) as RoundTrip<'de, R>>⟧.same j
        x1) (tuple_row s _ _ (rows_cons s _ _ (λ j. Only (⟦<u8 as Deserialize<'de, R>>⟧.reads s.human R.lends) ⟦<u8 as RoundTrip<'de, R>>⟧.same j x1.0) _
        (byte_only s x1.0) (rows_cons s _ _ (λ j. Only (⟦<String as Deserialize<'de, R>>⟧.reads s.human R.lends) ⟦<String as RoundTrip<'de, R>>⟧.same j
        x1.1) _ (string_only s (λ w. string_bytes w) (string_bytes x1.1)) (rows_none s))))
        (λ m q w r. row_both _ _ _ m q r (item_only (⟦<u8 as Deserialize<'de, R>>⟧.reads s.human R.lends) ⟦<u8 as RoundTrip<'de, R>>⟧.same x1.0 w.0 _ _ _
        (last_only (⟦<String as Deserialize<'de, R>>⟧.reads s.human R.lends) ⟦<String as RoundTrip<'de, R>>⟧.same x1.1 w.1))))) v.crew.items fits.2)))
        (fields_cons s (codes "seal") _ _ _ (λ j. Only (⟦<u128 as Deserialize<'de, R>>⟧.reads s.human R.lends) ⟦<u128 as RoundTrip<'de, R>>⟧.same j v.seal)
        ⊥ _ (unsigned128_only s v.seal fits.3) (fields_cons s (codes "nothing") _ _ _
        (λ j. Only (⟦<() as Deserialize<'de, R>>⟧.reads s.human R.lends) ⟦<() as RoundTrip<'de, R>>⟧.same j v.nothing) ⊥ _ (unit_only s)
        (fields_cons s (codes "flag") _ _ _ (λ j. Only (⟦<char as Deserialize<'de, R>>⟧.reads s.human R.lends) ⟦<char as RoundTrip<'de, R>>⟧.same j v.flag)
        ⊥ _ (char_only s v.flag fits.5) (fields_cons s (codes "spot") _ _ _
        (λ j. Only (⟦<Spot as Deserialize<'de, R>>⟧.reads s.human R.lends) ⟦<Spot as RoundTrip<'de, R>>⟧.same j v.spot) ⊥ _
        (spot_rounds.only-law R.row R.ReadSlice.own (given 0) R.Source (given 0) s v.spot fits.6)
        (fields_cons s (codes "cargo") _ _ _ (λ j. Only (⟦<BTreeMap<String, u64> as Deserialize<'de, R>>⟧.reads s.human R.lends)
        ⟦<BTreeMap<String, u64> as RoundTrip<'de, R>>⟧.same j v.cargo) ⊥ _
        (entries_only (⟦<String as Deserialize<'de, R>>⟧.reads s.human R.lends) (⟦<u64 as Deserialize<'de, R>>⟧.reads s.human R.lends)
        ⟦<String as RoundTrip<'de, R>>⟧.same ⟦<u64 as RoundTrip<'de, R>>⟧.same s _ (λ w. w.entries) {cmp = ⟦<String as Ord>⟧.cmp}
        (on_total (λ x. string_bytes x) nat_list_cmp_total) (λ x y e. tied (slice_cmp nat_cmp) nat_list_cmp_total (string_bytes x) (string_bytes y) e)
        v.cargo.entries fits.7.1 (pairs_row s (λ x. ⟦<String as Serialize>⟧.data_of x s.human) (λ x. ⟦<u64 as Serialize>⟧.data_of x s.human)
        ⟦<String as Serialize>⟧.is_value ⟦<u64 as Serialize>⟧.is_value
        (Only (⟦<String as Deserialize<'de, R>>⟧.reads s.human R.lends) ⟦<String as RoundTrip<'de, R>>⟧.same)
        (Only (⟦<u64 as Deserialize<'de, R>>⟧.reads s.human R.lends) ⟦<u64 as RoundTrip<'de, R>>⟧.same)
        (λ x2 h2. (string_only s (λ w. string_bytes w) (string_bytes x2))) (λ x3 h3. (unsigned_only s 18446744073709551615 x3)) v.cargo.entries fits.7.0))
        (fields_cons s (codes "depths") _ _ _ (λ j. Only (⟦<[u16; 3] as Deserialize<'de, R>>⟧.reads s.human R.lends) ⟦<[u16; 3] as RoundTrip<'de, R>>⟧.same
        j v.depths) ⊥ _ (array_only s _ 3 (⟦<u16 as Deserialize<'de, R>>⟧.reads s.human R.lends) ⟦<u16 as RoundTrip<'de, R>>⟧.same v.depths
        (tuple_row s _ (λ ms. ReadsEach (Only (⟦<u16 as Deserialize<'de, R>>⟧.reads s.human R.lends) ⟦<u16 as RoundTrip<'de, R>>⟧.same) ms v.depths)
        (each_row s (λ x. ⟦<u16 as Serialize>⟧.data_of x s.human) ⟦<u16 as Serialize>⟧.is_value
        (Only (⟦<u16 as Deserialize<'de, R>>⟧.reads s.human R.lends) ⟦<u16 as RoundTrip<'de, R>>⟧.same) (λ x4 h4. (unsigned_only s 65535 x4)) v.depths
        fits.8.1))) (fields_cons s (codes "last") _ _ _ (λ j. Only (⟦<Option<Spot> as Deserialize<'de, R>>⟧.reads s.human R.lends)
        ⟦<Option<Spot> as RoundTrip<'de, R>>⟧.same j v.last) ⊥ _
        (option_only s _ (⟦<Spot as Deserialize<'de, R>>⟧.reads s.human R.lends) ⟦<Spot as RoundTrip<'de, R>>⟧.same v.last
        (option_row s (λ x. ⟦<Spot as Serialize>⟧.data_of x s.human) ⟦<Spot as Serialize>⟧.is_value
        (Only (⟦<Spot as Deserialize<'de, R>>⟧.reads s.human R.lends) ⟦<Spot as RoundTrip<'de, R>>⟧.same) (λ x6. spot_other.never_nil-law s x6)
        (λ x5 h5. (spot_rounds.only-law R.row R.ReadSlice.own (given 0) R.Source (given 0) s x5 h5)) v.last fits.9))
        (fields_cons s (codes "chart") _ _ _ (λ j. Only (⟦<ByteBuf as Deserialize<'de, R>>⟧.reads s.human R.lends) ⟦<ByteBuf as RoundTrip<'de, R>>⟧.same j
        v.chart) ⊥ _ (buffer_only s (λ w. buffer_bytes w) (buffer_bytes v.chart))
        (fields_cons s (codes "pair") _ _ _ (λ j. Only (⟦<(i64, Option<bool>) as Deserialize<'de, R>>⟧.reads s.human R.lends)
        ⟦<(i64, Option<bool>) as RoundTrip<'de, R>>⟧.same j v.pair) ⊥ _
        (lowers_then s _ _ (λ j. Only (⟦<(i64, Option<bool>) as Deserialize<'de, R>>⟧.reads s.human R.lends)
        ⟦<(i64, Option<bool>) as RoundTrip<'de, R>>⟧.same j v.pair)
        (tuple_row s _ _ (rows_cons s _ _ (λ j. Only (⟦<i64 as Deserialize<'de, R>>⟧.reads s.human R.lends) ⟦<i64 as RoundTrip<'de, R>>⟧.same j v.pair.0) _
        (signed_only s (negsuc 9223372036854775807) (pos 9223372036854775807) v.pair.0)
        (rows_cons s _ _ (λ j. Only (⟦<Option<bool> as Deserialize<'de, R>>⟧.reads s.human R.lends) ⟦<Option<bool> as RoundTrip<'de, R>>⟧.same j v.pair.1) _
        (option_only s _ (⟦<bool as Deserialize<'de, R>>⟧.reads s.human R.lends) ⟦<bool as RoundTrip<'de, R>>⟧.same v.pair.1
        (option_row s (λ x. ⟦<bool as Serialize>⟧.data_of x s.human) ⟦<bool as Serialize>⟧.is_value
        (Only (⟦<bool as Deserialize<'de, R>>⟧.reads s.human R.lends) ⟦<bool as RoundTrip<'de, R>>⟧.same) (λ x8. truth_other s x8)
        (λ x7 h7. (truth_only s x7)) v.pair.1 fits.11.1)) (rows_none s))))
        (λ m q w r. row_both _ _ _ m q r (item_only (⟦<i64 as Deserialize<'de, R>>⟧.reads s.human R.lends) ⟦<i64 as RoundTrip<'de, R>>⟧.same v.pair.0 w.0 _
        _ _ (last_only (⟦<Option<bool> as Deserialize<'de, R>>⟧.reads s.human R.lends) ⟦<Option<bool> as RoundTrip<'de, R>>⟧.same v.pair.1 w.1))))
        (fields_cons s (codes "owner") _ _ _ (λ j. Only (⟦<Option<String> as Deserialize<'de, R>>⟧.reads s.human R.lends)
        ⟦<Option<String> as RoundTrip<'de, R>>⟧.same j v.owner) ⊥ _
        (option_only s _ (⟦<String as Deserialize<'de, R>>⟧.reads s.human R.lends) ⟦<String as RoundTrip<'de, R>>⟧.same v.owner
        (option_row s (λ x. ⟦<String as Serialize>⟧.data_of x s.human) ⟦<String as Serialize>⟧.is_value
        (Only (⟦<String as Deserialize<'de, R>>⟧.reads s.human R.lends) ⟦<String as RoundTrip<'de, R>>⟧.same) (λ x10. text_other s (string_bytes x10))
        (λ x9 h9. (string_only s (λ w. string_bytes w) (string_bytes x9))) v.owner fits.12))
        (fields_cons s (codes "tonnage") _ _ _ (λ j. Only (⟦<u32 as Deserialize<'de, R>>⟧.reads s.human R.lends) ⟦<u32 as RoundTrip<'de, R>>⟧.same j
        v.tonnage) ⊥ _ (unsigned_only s 4294967295 v.tonnage)
        (fields_cons s (codes "draught") _ _ _ (λ j. Only (⟦<F64Bits as Deserialize<'de, R>>⟧.reads s.human R.lends) ⟦<F64Bits as RoundTrip<'de, R>>⟧.same j
        v.draught) ⊥ _ (float64_only s (λ w. w.0) v.draught.0)
        (fields_cons s (codes "ports") _ _ _ (λ j. Only (⟦<Vec<String> as Deserialize<'de, R>>⟧.reads s.human R.lends)
        ⟦<Vec<String> as RoundTrip<'de, R>>⟧.same j v.ports) ⊥ _
        (list_only s _ (λ w. w.items) (⟦<String as Deserialize<'de, R>>⟧.reads s.human R.lends) ⟦<String as RoundTrip<'de, R>>⟧.same v.ports.items
        (slice_row s _ (λ ms. ReadsEach (Only (⟦<String as Deserialize<'de, R>>⟧.reads s.human R.lends) ⟦<String as RoundTrip<'de, R>>⟧.same) ms
        v.ports.items) (each_row s (λ x. ⟦<String as Serialize>⟧.data_of x s.human) ⟦<String as Serialize>⟧.is_value
        (Only (⟦<String as Deserialize<'de, R>>⟧.reads s.human R.lends) ⟦<String as RoundTrip<'de, R>>⟧.same)
        (λ x11 h11. (string_only s (λ w. string_bytes w) (string_bytes x11))) v.ports.items fits.15)))
        (fields_cons s (codes "heading") _ _ _ (λ j. Only (⟦<i16 as Deserialize<'de, R>>⟧.reads s.human R.lends) ⟦<i16 as RoundTrip<'de, R>>⟧.same j
        v.heading) ⊥ _ (signed_only s (negsuc 32767) (pos 32767) v.heading)
        (fields_cons s (codes "debt") _ _ _ (λ j. Only (⟦<i128 as Deserialize<'de, R>>⟧.reads s.human R.lends) ⟦<i128 as RoundTrip<'de, R>>⟧.same j v.debt)
        ⊥ _ (signed128_only s v.debt fits.17) (fields_cons s (codes "berths") _ _ _
        (λ j. Only (⟦<BTreeSet<u16> as Deserialize<'de, R>>⟧.reads s.human R.lends) ⟦<BTreeSet<u16> as RoundTrip<'de, R>>⟧.same j v.berths) ⊥ _
        (set_only s _ (λ w. w.keys) {cmp = ⟦<u16 as Ord>⟧.cmp} (Prim.search (comparing, rules)) (⟦<u16 as Deserialize<'de, R>>⟧.reads s.human R.lends)
        ⟦<u16 as RoundTrip<'de, R>>⟧.same (λ x y e. tied ⟦<u16 as Ord>⟧.cmp (Prim.search (comparing, rules)) x y e) v.berths.keys fits.18.1
        (sequence_row s _ (λ ms. ReadsEach (Only (⟦<u16 as Deserialize<'de, R>>⟧.reads s.human R.lends) ⟦<u16 as RoundTrip<'de, R>>⟧.same) ms v.berths.keys)
        (each_row s (λ x. ⟦<u16 as Serialize>⟧.data_of x s.human) ⟦<u16 as Serialize>⟧.is_value
        (Only (⟦<u16 as Deserialize<'de, R>>⟧.reads s.human R.lends) ⟦<u16 as RoundTrip<'de, R>>⟧.same) (λ x12 h12. (unsigned_only s 65535 x12))
        v.berths.keys fits.18.0))) (fields_cons s (codes "done") _ _ _
        (λ j. Only (⟦<bool as Deserialize<'de, R>>⟧.reads s.human R.lends) ⟦<bool as RoundTrip<'de, R>>⟧.same j v.done) ⊥ _ (truth_only s v.done)
        (fields_none s)))))))))))))))))))))) (λ m q w r. fields_both
        (codes "ship" ∷ (codes "course" ∷ (codes "crew" ∷ (codes "seal"
        ∷ (codes "nothing" ∷ (codes "flag" ∷ (codes "spot"
        ∷ (codes "cargo" ∷ (codes "depths" ∷ (codes "last"
        ∷ (codes "chart" ∷ (codes "pair" ∷ (codes "owner" ∷
        (codes "tonnage" ∷ (codes "draught" ∷ (codes "ports" ∷ (codes "heading" ∷ (codes "debt" ∷ (codes "berths" ∷ (codes "done" ∷ [])))))))))))))))))))) _
        _ _ m q r (λ ks i j. let x = field_only (⟦<String as Deserialize<'de, R>>⟧.reads s.human R.lends) ⟦<String as RoundTrip<'de, R>>⟧.same v.ship w.ship
        _ _ _ _ (field_only (⟦<Course as Deserialize<'de, R>>⟧.reads s.human R.lends) ⟦<Course as RoundTrip<'de, R>>⟧.same v.course w.course _ _ _ _
        (field_only (⟦<Vec<(u8, String)> as Deserialize<'de, R>>⟧.reads s.human R.lends) ⟦<Vec<(u8, String)> as RoundTrip<'de, R>>⟧.same v.crew w.crew _ _ _
        _ (field_only (⟦<u128 as Deserialize<'de, R>>⟧.reads s.human R.lends) ⟦<u128 as RoundTrip<'de, R>>⟧.same v.seal w.seal _ _ _ _
        (field_only (⟦<() as Deserialize<'de, R>>⟧.reads s.human R.lends) ⟦<() as RoundTrip<'de, R>>⟧.same v.nothing w.nothing _ _ _ _
        (field_only (⟦<char as Deserialize<'de, R>>⟧.reads s.human R.lends) ⟦<char as RoundTrip<'de, R>>⟧.same v.flag w.flag _ _ _ _
        (field_only (⟦<Spot as Deserialize<'de, R>>⟧.reads s.human R.lends) ⟦<Spot as RoundTrip<'de, R>>⟧.same v.spot w.spot _ _ _ _
        (field_only (⟦<BTreeMap<String, u64> as Deserialize<'de, R>>⟧.reads s.human R.lends) ⟦<BTreeMap<String, u64> as RoundTrip<'de, R>>⟧.same v.cargo
        w.cargo _ _ _ _ (field_only (⟦<[u16; 3] as Deserialize<'de, R>>⟧.reads s.human R.lends) ⟦<[u16; 3] as RoundTrip<'de, R>>⟧.same v.depths w.depths _ _
        _ _ (field_only (⟦<Option<Spot> as Deserialize<'de, R>>⟧.reads s.human R.lends) ⟦<Option<Spot> as RoundTrip<'de, R>>⟧.same v.last w.last _ _ _ _
        (field_only (⟦<ByteBuf as Deserialize<'de, R>>⟧.reads s.human R.lends) ⟦<ByteBuf as RoundTrip<'de, R>>⟧.same v.chart w.chart _ _ _ _
        (field_only (⟦<(i64, Option<bool>) as Deserialize<'de, R>>⟧.reads s.human R.lends) ⟦<(i64, Option<bool>) as RoundTrip<'de, R>>⟧.same v.pair w.pair _
        _ _ _ (field_only (⟦<Option<String> as Deserialize<'de, R>>⟧.reads s.human R.lends) ⟦<Option<String> as RoundTrip<'de, R>>⟧.same v.owner w.owner _ _
        _ _ (field_only (⟦<u32 as Deserialize<'de, R>>⟧.reads s.human R.lends) ⟦<u32 as RoundTrip<'de, R>>⟧.same v.tonnage w.tonnage _ _ _ _
        (field_only (⟦<F64Bits as Deserialize<'de, R>>⟧.reads s.human R.lends) ⟦<F64Bits as RoundTrip<'de, R>>⟧.same v.draught w.draught _ _ _ _
        (field_only (⟦<Vec<String> as Deserialize<'de, R>>⟧.reads s.human R.lends) ⟦<Vec<String> as RoundTrip<'de, R>>⟧.same v.ports w.ports _ _ _ _
        (field_only (⟦<i16 as Deserialize<'de, R>>⟧.reads s.human R.lends) ⟦<i16 as RoundTrip<'de, R>>⟧.same v.heading w.heading _ _ _ _
        (field_only (⟦<i128 as Deserialize<'de, R>>⟧.reads s.human R.lends) ⟦<i128 as RoundTrip<'de, R>>⟧.same v.debt w.debt _ _ _ _
        (field_only (⟦<BTreeSet<u16> as Deserialize<'de, R>>⟧.reads s.human R.lends) ⟦<BTreeSet<u16> as RoundTrip<'de, R>>⟧.same v.berths w.berths _ _ _ _
        (last_field (⟦<bool as Deserialize<'de, R>>⟧.reads s.human R.lends) ⟦<bool as RoundTrip<'de, R>>⟧.same v.done w.done _))))))))))))))))))) ks i j
        in (
          x.0,
          x.1.0,
          x.1.1.0,
          x.1.1.1.0,
          x.1.1.1.1.0,
          x.1.1.1.1.1.0,
          x.1.1.1.1.1.1.0,
          x.1.1.1.1.1.1.1.0,
          x.1.1.1.1.1.1.1.1.0,
          x.1.1.1.1.1.1.1.1.1.0,
          x.1.1.1.1.1.1.1.1.1.1.0,
          x.1.1.1.1.1.1.1.1.1.1.1.0,
          x.1.1.1.1.1.1.1.1.1.1.1.1.0,
          x.1.1.1.1.1.1.1.1.1.1.1.1.1.0,
          x.1.1.1.1.1.1.1.1.1.1.1.1.1.1.0,
          x.1.1.1.1.1.1.1.1.1.1.1.1.1.1.1.0,
          x.1.1.1.1.1.1.1.1.1.1.1.1.1.1.1.1.0,
          x.1.1.1.1.1.1.1.1.1.1.1.1.1.1.1.1.1.0,
          x.1.1.1.1.1.1.1.1.1.1.1.1.1.1.1.1.1.1.0,
          x.1.1.1.1.1.1.1.1.1.1.1.1.1.1.1.1.1.1.1,
        ))) };
}

impl NeverNil for Manifest {
    ghost never_nil = { λ s v. structure_other s _ };
}

impl<'de, R: ReadSlice<'de>> EndsInside<'de, R> for Manifest {
    ghost use Rattle.test_mixed.specs.contracts.mixed.derived.CourseEndsInside.TheImpl.Laws as course_ends;
    ghost use Rattle.test_mixed.specs.contracts.mixed.derived.SpotEndsInside.TheImpl.Laws as spot_ends;
    ghost use mir.Syntax.{given};

    ghost ends_inside = { fields_inside _ _ _ (
      string_inside,
      (
        (course_ends.ends_inside-law R.row R.ReadSlice.own (given 0) R.Source (given 0)),
        (
          (each_inside ⟦<(u8, String) as Deserialize<'de, R>>⟧.reads ⟦<(u8, String) as Deserialize<'de, R>>⟧.refuses
              (tuple_inside (part_of ⟦<u8 as Deserialize<'de, R>>⟧.reads ⟦<u8 as Deserialize<'de, R>>⟧.refuses
              ∷ (part_of ⟦<String as Deserialize<'de, R>>⟧.reads ⟦<String as Deserialize<'de, R>>⟧.refuses ∷ [])) (number_inside, (string_inside, tt)))),
          (
            unsigned128_inside,
            (
              nil_inside,
              (
                char_inside,
                (
                  (spot_ends.ends_inside-law R.row R.ReadSlice.own (given 0) R.Source (given 0)),
                  (
                    (map_inside ⟦<String as Deserialize<'de, R>>⟧.reads ⟦<u64 as Deserialize<'de, R>>⟧.reads ⟦<String as Deserialize<'de, R>>⟧.refuses
                        ⟦<u64 as Deserialize<'de, R>>⟧.refuses string_inside number_inside),
                    (
                      (array_inside _ 3 ⟦<u16 as Deserialize<'de, R>>⟧.reads ⟦<u16 as Deserialize<'de, R>>⟧.refuses number_inside),
                      (
                        (option_inside ⟦<Spot as Deserialize<'de, R>>⟧.refuses (spot_ends.ends_inside-law R.row R.ReadSlice.own (given 0) R.Source (given 0))),
                        (
                          buffer_inside,
                          (
                            (tuple_inside (part_of ⟦<i64 as Deserialize<'de, R>>⟧.reads ⟦<i64 as Deserialize<'de, R>>⟧.refuses
                                ∷ (part_of ⟦<Option<bool> as Deserialize<'de, R>>⟧.reads ⟦<Option<bool> as Deserialize<'de, R>>⟧.refuses ∷ []))
                                (number_inside, ((option_inside ⟦<bool as Deserialize<'de, R>>⟧.refuses kind_inside), tt))),
                            (
                              (option_inside ⟦<String as Deserialize<'de, R>>⟧.refuses string_inside),
                              (
                                number_inside,
                                (
                                  kind_inside,
                                  (
                                    (each_inside ⟦<String as Deserialize<'de, R>>⟧.reads ⟦<String as Deserialize<'de, R>>⟧.refuses string_inside),
                                    (
                                      number_inside,
                                      (
                                        signed128_inside,
                                        (
                                          (each_inside ⟦<u16 as Deserialize<'de, R>>⟧.reads ⟦<u16 as Deserialize<'de, R>>⟧.refuses number_inside),
                                          (kind_inside, tt),
                                        ),
                                      ),
                                    ),
                                  ),
                                ),
                              ),
                            ),
                          ),
                        ),
                      ),
                    ),
                  ),
                ),
              ),
            ),
          ),
        ),
      ),
    ) };
}

// 12 values, the first 8 of which are written before the others.
#[derive(Drop)]
struct TwelveParts<'r, E1, E2, E3, E4, E5, E6, E7, E8, E9, E10, E11, E12> {
    first: &'r E1,
    second: &'r E2,
    third: &'r E3,
    fourth: &'r E4,
    fifth: &'r E5,
    sixth: &'r E6,
    seventh: &'r E7,
    eighth: &'r E8,
    ninth: &'r E9,
    tenth: &'r E10,
    eleventh: &'r E11,
    twelfth: &'r E12,
}

impl<
    'r,
    E1: Serialize,
    E2: Serialize,
    E3: Serialize,
    E4: Serialize,
    E5: Serialize,
    E6: Serialize,
    E7: Serialize,
    E8: Serialize,
    E9: Serialize,
    E10: Serialize,
    E11: Serialize,
    E12: Serialize,
> Elements for TwelveParts<'r, E1, E2, E3, E4, E5, E6, E7, E8, E9, E10, E11, E12> {
    ghost count = { 12 };

    ghost parts_of = { λ v human. E1.data_of v.first.now human ∷ E2.data_of v.second.now human ∷ E3.data_of v.third.now human
        ∷ E4.data_of v.fourth.now human ∷ E5.data_of v.fifth.now human ∷ E6.data_of v.sixth.now human ∷ E7.data_of v.seventh.now human
        ∷ E8.data_of v.eighth.now human ∷ E9.data_of v.ninth.now human ∷ E10.data_of v.tenth.now human ∷ E11.data_of v.eleventh.now human
        ∷ E12.data_of v.twelfth.now human ∷ [] };

    ghost are_values = { λ v. E1.is_value v.first.now × E2.is_value v.second.now × E3.is_value v.third.now × E4.is_value v.fourth.now
        × E5.is_value v.fifth.now × E6.is_value v.sixth.now × E7.is_value v.seventh.now × E8.is_value v.eighth.now × E9.is_value v.ninth.now
        × E10.is_value v.tenth.now × E11.is_value v.eleventh.now × E12.is_value v.twelfth.now };

    ghost refusals = { λ v. E1.refuses v.first.now ∷ E2.refuses v.second.now ∷ E3.refuses v.third.now ∷ E4.refuses v.fourth.now ∷ E5.refuses v.fifth.now
        ∷ E6.refuses v.sixth.now ∷ E7.refuses v.seventh.now ∷ E8.refuses v.eighth.now ∷ E9.refuses v.ninth.now ∷ E10.refuses v.tenth.now
        ∷ E11.refuses v.eleventh.now ∷ E12.refuses v.twelfth.now ∷ [] };

    ghost takes_memory = { λ s. one_of (E1.takes_memory s
        ∷ (E2.takes_memory s ∷ (E3.takes_memory s ∷ (E4.takes_memory s
        ∷ (E5.takes_memory s ∷ (E6.takes_memory s ∷ (E7.takes_memory s
        ∷ (E8.takes_memory s ∷ (E9.takes_memory s ∷ (E10.takes_memory s ∷ (E11.takes_memory s ∷ (E12.takes_memory s ∷ [])))))))))))) };

    ghost pieces = { λ v s.
        value_of s (E1.data_of v.first.now s.human) (E1.marks v.first.now s) ∷
        value_of s (E2.data_of v.second.now s.human) (E2.marks v.second.now s) ∷
        value_of s (E3.data_of v.third.now s.human) (E3.marks v.third.now s) ∷
        value_of s (E4.data_of v.fourth.now s.human) (E4.marks v.fourth.now s) ∷
        value_of s (E5.data_of v.fifth.now s.human) (E5.marks v.fifth.now s) ∷
        value_of s (E6.data_of v.sixth.now s.human) (E6.marks v.sixth.now s) ∷
        value_of s (E7.data_of v.seventh.now s.human) (E7.marks v.seventh.now s) ∷
        value_of s (E8.data_of v.eighth.now s.human) (E8.marks v.eighth.now s) ∷
        value_of s (E9.data_of v.ninth.now s.human) (E9.marks v.ninth.now s) ∷
        value_of s (E10.data_of v.tenth.now s.human) (E10.marks v.tenth.now s) ∷
        value_of s (E11.data_of v.eleventh.now s.human) (E11.marks v.eleventh.now s) ∷
        value_of s (E12.data_of v.twelfth.now s.human) (E12.marks v.twelfth.now s) ∷ [] };

    ghost counted = { λ v human. refl };

    #[inline(always)]
    fn len(&self) -> usize {
        12
    }

    #[inline(always)]
    fn write<W: Sink, C: SerializerConfig>(
        &self,
        se: &mut Serializer<W, C>,
    ) -> Result<(), rmp_encode::Error> {
        let front = rmp_encode::Eight {
            first: self.first,
            second: self.second,
            third: self.third,
            fourth: self.fourth,
            fifth: self.fifth,
            sixth: self.sixth,
            seventh: self.seventh,
            eighth: self.eighth,
        };
        let back = rmp_encode::Four {
            first: self.ninth,
            second: self.tenth,
            third: self.eleventh,
            fourth: self.twelfth,
        };
        front.write(se)?;
        back.write(se)
    }

    #[inline(always)]
    fn write_fields<W: Sink, C: SerializerConfig>(
        &self,
        names: &[&'static str],
        se: &mut Serializer<W, C>,
    ) -> Result<(), rmp_encode::Error> {
        let front = rmp_encode::Eight {
            first: self.first,
            second: self.second,
            third: self.third,
            fourth: self.fourth,
            fifth: self.fifth,
            sixth: self.sixth,
            seventh: self.seventh,
            eighth: self.eighth,
        };
        let back = rmp_encode::Four {
            first: self.ninth,
            second: self.tenth,
            third: self.eleventh,
            fourth: self.twelfth,
        };
        front.write_fields(&names[..8], se)?;
        back.write_fields(&names[8..], se)
    }
}

// 20 values, the first 8 of which are written before the others.
#[derive(Drop)]
struct TwentyParts<
    'r,
    E1,
    E2,
    E3,
    E4,
    E5,
    E6,
    E7,
    E8,
    E9,
    E10,
    E11,
    E12,
    E13,
    E14,
    E15,
    E16,
    E17,
    E18,
    E19,
    E20,
> {
    first: &'r E1,
    second: &'r E2,
    third: &'r E3,
    fourth: &'r E4,
    fifth: &'r E5,
    sixth: &'r E6,
    seventh: &'r E7,
    eighth: &'r E8,
    ninth: &'r E9,
    tenth: &'r E10,
    eleventh: &'r E11,
    twelfth: &'r E12,
    thirteenth: &'r E13,
    fourteenth: &'r E14,
    fifteenth: &'r E15,
    sixteenth: &'r E16,
    seventeenth: &'r E17,
    eighteenth: &'r E18,
    nineteenth: &'r E19,
    twentieth: &'r E20,
}

impl<
    'r,
    E1: Serialize,
    E2: Serialize,
    E3: Serialize,
    E4: Serialize,
    E5: Serialize,
    E6: Serialize,
    E7: Serialize,
    E8: Serialize,
    E9: Serialize,
    E10: Serialize,
    E11: Serialize,
    E12: Serialize,
    E13: Serialize,
    E14: Serialize,
    E15: Serialize,
    E16: Serialize,
    E17: Serialize,
    E18: Serialize,
    E19: Serialize,
    E20: Serialize,
> Elements
    for TwentyParts<
        'r,
        E1,
        E2,
        E3,
        E4,
        E5,
        E6,
        E7,
        E8,
        E9,
        E10,
        E11,
        E12,
        E13,
        E14,
        E15,
        E16,
        E17,
        E18,
        E19,
        E20,
    > {
    ghost count = { 20 };

    ghost parts_of = { λ v human. E1.data_of v.first.now human ∷ E2.data_of v.second.now human ∷ E3.data_of v.third.now human
        ∷ E4.data_of v.fourth.now human ∷ E5.data_of v.fifth.now human ∷ E6.data_of v.sixth.now human ∷ E7.data_of v.seventh.now human
        ∷ E8.data_of v.eighth.now human ∷ E9.data_of v.ninth.now human ∷ E10.data_of v.tenth.now human ∷ E11.data_of v.eleventh.now human
        ∷ E12.data_of v.twelfth.now human ∷ E13.data_of v.thirteenth.now human ∷ E14.data_of v.fourteenth.now human ∷ E15.data_of v.fifteenth.now human
        ∷ E16.data_of v.sixteenth.now human ∷ E17.data_of v.seventeenth.now human ∷ E18.data_of v.eighteenth.now human ∷ E19.data_of v.nineteenth.now human
        ∷ E20.data_of v.twentieth.now human ∷ [] };

    ghost are_values = { λ v. E1.is_value v.first.now × E2.is_value v.second.now × E3.is_value v.third.now × E4.is_value v.fourth.now
        × E5.is_value v.fifth.now × E6.is_value v.sixth.now × E7.is_value v.seventh.now × E8.is_value v.eighth.now × E9.is_value v.ninth.now
        × E10.is_value v.tenth.now × E11.is_value v.eleventh.now × E12.is_value v.twelfth.now × E13.is_value v.thirteenth.now
        × E14.is_value v.fourteenth.now × E15.is_value v.fifteenth.now × E16.is_value v.sixteenth.now × E17.is_value v.seventeenth.now
        × E18.is_value v.eighteenth.now × E19.is_value v.nineteenth.now × E20.is_value v.twentieth.now };

    ghost refusals = { λ v. E1.refuses v.first.now ∷ E2.refuses v.second.now ∷ E3.refuses v.third.now ∷ E4.refuses v.fourth.now ∷ E5.refuses v.fifth.now
        ∷ E6.refuses v.sixth.now ∷ E7.refuses v.seventh.now ∷ E8.refuses v.eighth.now ∷ E9.refuses v.ninth.now ∷ E10.refuses v.tenth.now
        ∷ E11.refuses v.eleventh.now ∷ E12.refuses v.twelfth.now ∷ E13.refuses v.thirteenth.now ∷ E14.refuses v.fourteenth.now ∷ E15.refuses v.fifteenth.now
        ∷ E16.refuses v.sixteenth.now ∷ E17.refuses v.seventeenth.now ∷ E18.refuses v.eighteenth.now ∷ E19.refuses v.nineteenth.now
        ∷ E20.refuses v.twentieth.now ∷ [] };

    ghost takes_memory = { λ s. one_of (E1.takes_memory s
        ∷ (E2.takes_memory s ∷ (E3.takes_memory s ∷ (E4.takes_memory s
        ∷ (E5.takes_memory s ∷ (E6.takes_memory s ∷ (E7.takes_memory s
        ∷ (E8.takes_memory s ∷ (E9.takes_memory s ∷ (E10.takes_memory s
        ∷ (E11.takes_memory s ∷ (E12.takes_memory s ∷ (E13.takes_memory s
        ∷ (E14.takes_memory s ∷ (E15.takes_memory s ∷ (E16.takes_memory s
        ∷ (E17.takes_memory s ∷ (E18.takes_memory s ∷ (E19.takes_memory s ∷ (E20.takes_memory s ∷ [])))))))))))))))))))) };

    ghost pieces = { λ v s.
        value_of s (E1.data_of v.first.now s.human) (E1.marks v.first.now s) ∷
        value_of s (E2.data_of v.second.now s.human) (E2.marks v.second.now s) ∷
        value_of s (E3.data_of v.third.now s.human) (E3.marks v.third.now s) ∷
        value_of s (E4.data_of v.fourth.now s.human) (E4.marks v.fourth.now s) ∷
        value_of s (E5.data_of v.fifth.now s.human) (E5.marks v.fifth.now s) ∷
        value_of s (E6.data_of v.sixth.now s.human) (E6.marks v.sixth.now s) ∷
        value_of s (E7.data_of v.seventh.now s.human) (E7.marks v.seventh.now s) ∷
        value_of s (E8.data_of v.eighth.now s.human) (E8.marks v.eighth.now s) ∷
        value_of s (E9.data_of v.ninth.now s.human) (E9.marks v.ninth.now s) ∷
        value_of s (E10.data_of v.tenth.now s.human) (E10.marks v.tenth.now s) ∷
        value_of s (E11.data_of v.eleventh.now s.human) (E11.marks v.eleventh.now s) ∷
        value_of s (E12.data_of v.twelfth.now s.human) (E12.marks v.twelfth.now s) ∷
        value_of s (E13.data_of v.thirteenth.now s.human) (E13.marks v.thirteenth.now s) ∷
        value_of s (E14.data_of v.fourteenth.now s.human) (E14.marks v.fourteenth.now s) ∷
        value_of s (E15.data_of v.fifteenth.now s.human) (E15.marks v.fifteenth.now s) ∷
        value_of s (E16.data_of v.sixteenth.now s.human) (E16.marks v.sixteenth.now s) ∷
        value_of s (E17.data_of v.seventeenth.now s.human) (E17.marks v.seventeenth.now s) ∷
        value_of s (E18.data_of v.eighteenth.now s.human) (E18.marks v.eighteenth.now s) ∷
        value_of s (E19.data_of v.nineteenth.now s.human) (E19.marks v.nineteenth.now s) ∷
        value_of s (E20.data_of v.twentieth.now s.human) (E20.marks v.twentieth.now s) ∷ [] };

    ghost counted = { λ v human. refl };

    #[inline(always)]
    fn len(&self) -> usize {
        20
    }

    #[inline(always)]
    fn write<W: Sink, C: SerializerConfig>(
        &self,
        se: &mut Serializer<W, C>,
    ) -> Result<(), rmp_encode::Error> {
        let front = rmp_encode::Eight {
            first: self.first,
            second: self.second,
            third: self.third,
            fourth: self.fourth,
            fifth: self.fifth,
            sixth: self.sixth,
            seventh: self.seventh,
            eighth: self.eighth,
        };
        let back = TwelveParts {
            first: self.ninth,
            second: self.tenth,
            third: self.eleventh,
            fourth: self.twelfth,
            fifth: self.thirteenth,
            sixth: self.fourteenth,
            seventh: self.fifteenth,
            eighth: self.sixteenth,
            ninth: self.seventeenth,
            tenth: self.eighteenth,
            eleventh: self.nineteenth,
            twelfth: self.twentieth,
        };
        front.write(se)?;
        back.write(se)
    }

    #[inline(always)]
    fn write_fields<W: Sink, C: SerializerConfig>(
        &self,
        names: &[&'static str],
        se: &mut Serializer<W, C>,
    ) -> Result<(), rmp_encode::Error> {
        let front = rmp_encode::Eight {
            first: self.first,
            second: self.second,
            third: self.third,
            fourth: self.fourth,
            fifth: self.fifth,
            sixth: self.sixth,
            seventh: self.seventh,
            eighth: self.eighth,
        };
        let back = TwelveParts {
            first: self.ninth,
            second: self.tenth,
            third: self.eleventh,
            fourth: self.twelfth,
            fifth: self.thirteenth,
            sixth: self.fourteenth,
            seventh: self.fifteenth,
            eighth: self.sixteenth,
            ninth: self.seventeenth,
            tenth: self.eighteenth,
            eleventh: self.nineteenth,
            twelfth: self.twentieth,
        };
        front.write_fields(&names[..8], se)?;
        back.write_fields(&names[8..], se)
    }
}
