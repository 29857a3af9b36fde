//! How the types of signals.rt are written and read. Written by tools/derive.py.
//!
//! Sum of Signal: 8af2bfbf.
ghost use Rattle.rmp_decode.specs.Arrays.{Exactly};
ghost use Rattle.rmp_decode.specs.EnumRefusing.{RefusesEnum, no_content, with_content};
ghost use Rattle.rmp_decode.specs.FieldRefusing.{RefusesFields};
ghost use Rattle.rmp_decode.specs.Fields.{OfFields, Field, Absent, NoField};
ghost use Rattle.rmp_decode.specs.Refusing.{RefusesTuple, part_of};
ghost use Rattle.rmp_decode.specs.Rows.{AndThen, NoMore, ReadsEach};
ghost use Rattle.rmp_decode.specs.Seq.{OfRow};
ghost use Rattle.rmp_decode.specs.Variants.{OfVariant, Case, NoCase, Bare, Content};
ghost use Rattle.rmp_encode.specs.Data.{unit_variant};
ghost use Rattle.rmp_encode.specs.Refusals.{OfParts, OfSink};
ghost use Rattle.rmp_encode.specs.Sizes.{one_of};
ghost use Rattle.rmp_encode.specs.Trees.{newtype_variant_of, tuple_variant_of, struct_variant_of, tuple_of};
ghost use Rattle.rmp_ends.specs.BufferEnds.{buffer_inside};
ghost use Rattle.rmp_ends.specs.EnumEnds.{enum_inside, no_content_inside, with_content_inside};
ghost use Rattle.rmp_ends.specs.FieldEnds.{fields_inside};
ghost use Rattle.rmp_ends.specs.LeafEnds.{kind_inside, number_inside, nil_inside, signed128_inside, unsigned128_inside, char_inside, string_inside};
ghost use Rattle.rmp_ends.specs.MapEnds.{map_inside};
ghost use Rattle.rmp_ends.specs.RowEnds.{array_inside, box_inside, each_inside, option_inside, tuple_inside};
ghost use Rattle.rmp_round_trip.specs.AlikeData.{array_alike, bytes_alike, float64_alike, mapping_alike, option_alike};
ghost use Rattle.rmp_round_trip.specs.AlikeData.{sequence_alike, slice_alike, text_alike, unit_alike, variant_alike};
ghost use Rattle.rmp_round_trip.specs.AlikeOrder.{tied};
ghost use Rattle.rmp_round_trip.specs.LeafRounds.{byte_row, unsigned_row_16, unsigned_row_32, unsigned_row_64, signed_row_16};
ghost use Rattle.rmp_round_trip.specs.LeafRounds.{char_row, string_row, buffer_row, pos_other, text_other};
ghost use Rattle.rmp_round_trip.specs.LeafRounds.{signed_row_32, signed_row_64, truth_row, unit_row, float64_row};
ghost use Rattle.rmp_round_trip.specs.MapRounds.{mapping_some, map_row, pairs_row, set_row};
ghost use Rattle.rmp_round_trip.specs.OnlyFields.{AtPlace, AnyContent, content_fields, content_only, content_row, field_only, last_field, variant_both};
ghost use Rattle.rmp_round_trip.specs.OnlyLeaves.{unit_only, truth_only, byte_only, unsigned_only, signed_only, float64_only};
ghost use Rattle.rmp_round_trip.specs.OnlyLeaves.{unsigned128_only, signed128_only, char_only, string_only, buffer_only};
ghost use Rattle.rmp_round_trip.specs.OnlyMaps.{entries_only, set_only};
ghost use Rattle.rmp_round_trip.specs.OnlyRows.{array_only, item_only, last_only, list_only, lowers_then, option_only, row_both};
ghost use Rattle.rmp_round_trip.specs.RoundTrip.{Only};
ghost use Rattle.rmp_round_trip.specs.Rounds.{each_some, each_row, rows_map, option_some, option_row, slice_some, slice_row};
ghost use Rattle.rmp_round_trip.specs.Rounds.{tuple_some, tuple_row, tuple_other, sequence_some, sequence_row, rows_none, rows_cons};
ghost use Rattle.rmp_round_trip.specs.StructRounds.{tuple_all, tuple_variant_all, struct_variant_all, fields_none, fields_cons};
ghost use Rattle.rmp_round_trip.specs.VariantRounds.{bare_other, newtype_variant_other, tuple_variant_other, struct_variant_other};
ghost use Rattle.rmp_round_trip.specs.VariantRounds.{newtype_variant_some, bare_row, newtype_variant_row, tuple_variant_row, struct_variant_row};
ghost use Rattle.rmp_round_trip.specs.WideRounds.{unsigned128_row, signed128_row};
ghost use Rattle.rmp_wire.specs.Types.{buffer_bytes};
ghost use Rattle.std.proofs.Common.{refl, rules};
ghost use Rattle.std.proofs.lemmas.Cmp.{on_total, nat_list_cmp_total};
ghost use Rattle.std.specs.Cmp.Lexicographic.{slice_cmp};
ghost use Rattle.std.specs.Cmp.Rules.{comparing};
ghost use Rattle.std.specs.Ordering.{nat_cmp};
ghost use Rattle.std.specs.Prelude.{◌≡◌, ◌∷◌, [], None, Some, codes, false, ⊤, string_bytes, pos, negsuc};
ghost use Rattle.test_enums.specs.declared.signals.Signal.TheVariants as the_signal;

use super::{BTreeMap, BTreeSet, ByteBuf, Course, F64Bits, Signal, Spot};
use rmp_decode::{Deserialize, Deserializer, ReadFields};
use rmp_encode::{Serialize, Serializer};
use rmp_ends::EndsInside;
use rmp_round_trip::{NeverNil, RoundTrip};
use rmp_wire::config::SerializerConfig;
use rmp_wire::{ReadSlice, Sink};

impl Serialize for Signal {
    ghost data_of = { λ v human. elim v [
      | the_signal.Silent ↦ Some (unit_variant (codes "Silent"))
      | the_signal.Call a1 ↦ newtype_variant_of (codes "Call")
          (⟦<String as Serialize>⟧.data_of a1 human)
      | the_signal.At a1 a2 ↦ tuple_variant_of (codes "At")
          (⟦<i32 as Serialize>⟧.data_of a1 human ∷ (⟦<i32 as Serialize>⟧.data_of a2 human ∷ []))
      | the_signal.Sail a1 a2 ↦ struct_variant_of (codes "Sail")
          ((codes "course", ⟦<Course as Serialize>⟧.data_of a1 human) ∷ ((codes "reef", ⟦<u8 as Serialize>⟧.data_of a2 human) ∷ []))
      | the_signal.Anchor ↦
          Some (unit_variant (codes "Anchor"))
      | the_signal.Depth a1 ↦ newtype_variant_of (codes "Depth") (⟦<u16 as Serialize>⟧.data_of a1 human)
      | the_signal.Depths a1 ↦ newtype_variant_of (codes "Depths") (⟦<[u16; 4] as Serialize>⟧.data_of a1 human)
      | the_signal.Spotted a1 ↦ newtype_variant_of
          (codes "Spotted") (⟦<Spot as Serialize>⟧.data_of a1 human)
      | the_signal.Crew a1 ↦ newtype_variant_of (codes "Crew")
          (⟦<Vec<String> as Serialize>⟧.data_of a1 human)
      | the_signal.Meet a1 a2 a3 ↦ struct_variant_of (codes "Meet")
          ((codes "spot", ⟦<Spot as Serialize>⟧.data_of a1 human)
          ∷ ((codes "hour", ⟦<u8 as Serialize>⟧.data_of a2 human) ∷ ((codes "name", ⟦<Option<String> as Serialize>⟧.data_of a3 human) ∷ [])))
      | the_signal.Distress ↦ Some (unit_variant (codes "Distress"))
      | the_signal.Heading a1 ↦ newtype_variant_of (codes "Heading")
          (⟦<i16 as Serialize>⟧.data_of a1 human)
      | the_signal.Weather a1 a2 ↦ tuple_variant_of (codes "Weather")
          (⟦<F64Bits as Serialize>⟧.data_of a1 human ∷ (⟦<char as Serialize>⟧.data_of a2 human ∷ []))
      | the_signal.Cargo a1 ↦ newtype_variant_of
          (codes "Cargo") (⟦<BTreeMap<String, u64> as Serialize>⟧.data_of a1 human)
      | the_signal.Ports a1 ↦ newtype_variant_of (codes "Ports")
          (⟦<BTreeSet<u16> as Serialize>⟧.data_of a1 human)
      | the_signal.Chart a1 a2 a3 ↦ struct_variant_of (codes "Chart")
          ((codes "name", ⟦<String as Serialize>⟧.data_of a1 human)
          ∷ ((codes "seal", ⟦<u128 as Serialize>⟧.data_of a2 human) ∷ ((codes "chart", ⟦<ByteBuf as Serialize>⟧.data_of a3 human) ∷ [])))
      | the_signal.Answer
          a1 ↦ newtype_variant_of (codes "Answer") (⟦<bool as Serialize>⟧.data_of a1 human)
      | the_signal.Course a1 ↦ newtype_variant_of (codes "Course")
          (⟦<Course as Serialize>⟧.data_of a1 human)
      | the_signal.Pair a1 ↦ newtype_variant_of (codes "Pair") (⟦<(u8, String) as Serialize>⟧.data_of a1 human)
      | the_signal.Maybe a1 ↦ newtype_variant_of (codes "Maybe") (⟦<Option<u32> as Serialize>⟧.data_of a1 human)
      | the_signal.Pilot a1 ↦ struct_variant_of
          (codes "Pilot") ((codes "name", ⟦<String as Serialize>⟧.data_of a1 human) ∷ [])
      | the_signal.Quarantine ↦ Some (unit_variant (codes "Quarantine"))
      | the_signal.Tug a1 a2 a3 a4 ↦ tuple_variant_of (codes "Tug")
          (⟦<u8 as Serialize>⟧.data_of a1 human ∷ (⟦<u16 as Serialize>⟧.data_of a2 human
          ∷ (⟦<u32 as Serialize>⟧.data_of a3 human ∷ (⟦<u64 as Serialize>⟧.data_of a4 human ∷ []))))
      | the_signal.Debt a1 ↦ newtype_variant_of (codes "Debt")
          (⟦<i128 as Serialize>⟧.data_of a1 human)
      | the_signal.Nothing a1 ↦ newtype_variant_of (codes "Nothing") (⟦<() as Serialize>⟧.data_of a1 human)
      | the_signal.Lights a1 a2 a3 a4 ↦ struct_variant_of (codes "Lights")
          ((codes "left", ⟦<u8 as Serialize>⟧.data_of a1 human)
          ∷ ((codes "right", ⟦<u8 as Serialize>⟧.data_of a2 human)
          ∷ ((codes "top", ⟦<[u8; 2] as Serialize>⟧.data_of a3 human) ∷ ((codes "lit", ⟦<bool as Serialize>⟧.data_of a4 human) ∷ []))))
      | the_signal.Flags a1
          ↦ newtype_variant_of (codes "Flags") (⟦<Vec<(u8, char)> as Serialize>⟧.data_of a1 human)
      | the_signal.Towed a1 a2 ↦ struct_variant_of
          (codes "Towed") ((codes "by", ⟦<Box<Spot> as Serialize>⟧.data_of a1 human) ∷ ((codes "since", ⟦<i64 as Serialize>⟧.data_of a2 human) ∷ []))
      | the_signal.Fog a1 a2 ↦ tuple_variant_of (codes "Fog")
          (⟦<Option<(u16, u16)> as Serialize>⟧.data_of a1 human ∷ (⟦<bool as Serialize>⟧.data_of a2 human ∷ []))
      | the_signal.Farewell ↦ Some
          (unit_variant (codes "Farewell"))
    ] };

    ghost is_value = { λ v. elim v [
      | the_signal.Silent ↦ ⊤
      | the_signal.Call a1 ↦ ⟦<String as Serialize>⟧.is_value a1
      | the_signal.At a1 a2 ↦
          ⟦<i32 as Serialize>⟧.is_value a1 × ⟦<i32 as Serialize>⟧.is_value a2
      | the_signal.Sail a1 a2 ↦ ⟦<Course as Serialize>⟧.is_value a1
          × ⟦<u8 as Serialize>⟧.is_value a2
      | the_signal.Anchor ↦ ⊤
      | the_signal.Depth a1 ↦ ⟦<u16 as Serialize>⟧.is_value a1
      | the_signal.Depths a1 ↦
          ⟦<[u16; 4] as Serialize>⟧.is_value a1
      | the_signal.Spotted a1 ↦ ⟦<Spot as Serialize>⟧.is_value a1
      | the_signal.Crew a1 ↦
          ⟦<Vec<String> as Serialize>⟧.is_value a1
      | the_signal.Meet a1 a2 a3 ↦ ⟦<Spot as Serialize>⟧.is_value a1 × ⟦<u8 as Serialize>⟧.is_value a2
          × ⟦<Option<String> as Serialize>⟧.is_value a3
      | the_signal.Distress ↦ ⊤
      | the_signal.Heading a1 ↦ ⟦<i16 as Serialize>⟧.is_value a1
      | the_signal.Weather a1 a2 ↦ ⟦<F64Bits as Serialize>⟧.is_value a1
          × ⟦<char as Serialize>⟧.is_value a2
      | the_signal.Cargo a1 ↦ ⟦<BTreeMap<String, u64> as Serialize>⟧.is_value a1
      | the_signal.Ports a1 ↦
          ⟦<BTreeSet<u16> as Serialize>⟧.is_value a1
      | the_signal.Chart a1 a2 a3 ↦ ⟦<String as Serialize>⟧.is_value a1 × ⟦<u128 as Serialize>⟧.is_value a2
          × ⟦<ByteBuf as Serialize>⟧.is_value a3
      | the_signal.Answer a1 ↦ ⟦<bool as Serialize>⟧.is_value a1
      | the_signal.Course a1 ↦
          ⟦<Course as Serialize>⟧.is_value a1
      | the_signal.Pair a1 ↦ ⟦<(u8, String) as Serialize>⟧.is_value a1
      | the_signal.Maybe a1 ↦
          ⟦<Option<u32> as Serialize>⟧.is_value a1
      | the_signal.Pilot a1 ↦ ⟦<String as Serialize>⟧.is_value a1
      | the_signal.Quarantine ↦ ⊤
      | the_signal.Tug a1
          a2 a3 a4 ↦ ⟦<u8 as Serialize>⟧.is_value a1 × ⟦<u16 as Serialize>⟧.is_value a2 × ⟦<u32 as Serialize>⟧.is_value a3
          × ⟦<u64 as Serialize>⟧.is_value a4
      | the_signal.Debt a1 ↦ ⟦<i128 as Serialize>⟧.is_value a1
      | the_signal.Nothing a1 ↦ ⟦<() as Serialize>⟧.is_value
          a1
      | the_signal.Lights a1 a2 a3 a4 ↦ ⟦<u8 as Serialize>⟧.is_value a1 × ⟦<u8 as Serialize>⟧.is_value a2 × ⟦<[u8; 2] as Serialize>⟧.is_value a3
          × ⟦<bool as Serialize>⟧.is_value a4
      | the_signal.Flags a1 ↦ ⟦<Vec<(u8, char)> as Serialize>⟧.is_value a1
      | the_signal.Towed a1 a2 ↦
          ⟦<Box<Spot> as Serialize>⟧.is_value a1 × ⟦<i64 as Serialize>⟧.is_value a2
      | the_signal.Fog a1 a2 ↦ ⟦<Option<(u16, u16)> as Serialize>⟧.is_value a1
          × ⟦<bool as Serialize>⟧.is_value a2
      | the_signal.Farewell ↦ ⊤
    ] };

    ghost takes_memory = { λ s. one_of (false ∷ (⟦<String as Serialize>⟧.takes_memory s
        ∷ (one_of (⟦<i32 as Serialize>⟧.takes_memory s ∷ (⟦<i32 as Serialize>⟧.takes_memory s ∷ []))
        ∷ (one_of (⟦<Course as Serialize>⟧.takes_memory s ∷ (⟦<u8 as Serialize>⟧.takes_memory s ∷ []))
        ∷ (false ∷ (⟦<u16 as Serialize>⟧.takes_memory s ∷ (⟦<[u16; 4] as Serialize>⟧.takes_memory s
        ∷ (⟦<Spot as Serialize>⟧.takes_memory s ∷ (⟦<Vec<String> as Serialize>⟧.takes_memory s
        ∷ (one_of (⟦<Spot as Serialize>⟧.takes_memory s ∷ (⟦<u8 as Serialize>⟧.takes_memory s ∷ (⟦<Option<String> as Serialize>⟧.takes_memory s ∷ [])))
        ∷ (false ∷ (⟦<i16 as Serialize>⟧.takes_memory s ∷ (one_of (⟦<F64Bits as Serialize>⟧.takes_memory s ∷ (⟦<char as Serialize>⟧.takes_memory s ∷ []))
        ∷ (⟦<BTreeMap<String, u64> as Serialize>⟧.takes_memory s
        ∷ (⟦<BTreeSet<u16> as Serialize>⟧.takes_memory s ∷
        (one_of (⟦<String as Serialize>⟧.takes_memory s ∷ (⟦<u128 as Serialize>⟧.takes_memory s ∷ (⟦<ByteBuf as Serialize>⟧.takes_memory s ∷ [])))
        ∷ (⟦<bool as Serialize>⟧.takes_memory s ∷ (⟦<Course as Serialize>⟧.takes_memory s
        ∷ (⟦<(u8, String) as Serialize>⟧.takes_memory s ∷ (⟦<Option<u32> as Serialize>⟧.takes_memory s
        ∷ (one_of (⟦<String as Serialize>⟧.takes_memory s ∷ [])
        ∷ (false ∷ (one_of (⟦<u8 as Serialize>⟧.takes_memory s
        ∷ (⟦<u16 as Serialize>⟧.takes_memory s ∷ (⟦<u32 as Serialize>⟧.takes_memory s ∷ (⟦<u64 as Serialize>⟧.takes_memory s ∷ []))))
        ∷ (⟦<i128 as Serialize>⟧.takes_memory s ∷ (⟦<() as Serialize>⟧.takes_memory s
        ∷ (one_of (⟦<u8 as Serialize>⟧.takes_memory s ∷ (⟦<u8 as Serialize>⟧.takes_memory s
        ∷ (⟦<[u8; 2] as Serialize>⟧.takes_memory s ∷ (⟦<bool as Serialize>⟧.takes_memory s ∷ []))))
        ∷ (⟦<Vec<(u8, char)> as Serialize>⟧.takes_memory s
        ∷ (one_of (⟦<Box<Spot> as Serialize>⟧.takes_memory s ∷ (⟦<i64 as Serialize>⟧.takes_memory s ∷ []))
        ∷ (one_of (⟦<Option<(u16, u16)> as Serialize>⟧.takes_memory s ∷ (⟦<bool as Serialize>⟧.takes_memory s ∷ []))
        ∷ (false ∷ [])))))))))))))))))))))))))))))) };

    ghost refuses = { λ v. elim v [
      | the_signal.Silent ↦ OfSink
      | the_signal.Call a1 ↦ OfParts ⊥ (⟦<String as Serialize>⟧.refuses a1 ∷ [])
      | the_signal.At a1
          a2 ↦ OfParts ⊥ (⟦<i32 as Serialize>⟧.refuses a1 ∷ (⟦<i32 as Serialize>⟧.refuses a2 ∷ []))
      | the_signal.Sail a1 a2 ↦ OfParts ⊥
          (⟦<Course as Serialize>⟧.refuses a1 ∷ (⟦<u8 as Serialize>⟧.refuses a2 ∷ []))
      | the_signal.Anchor ↦ OfSink
      | the_signal.Depth a1 ↦ OfParts ⊥
          (⟦<u16 as Serialize>⟧.refuses a1 ∷ [])
      | the_signal.Depths a1 ↦ OfParts ⊥ (⟦<[u16; 4] as Serialize>⟧.refuses a1 ∷ [])
      | the_signal.Spotted a1 ↦
          OfParts ⊥ (⟦<Spot as Serialize>⟧.refuses a1 ∷ [])
      | the_signal.Crew a1 ↦ OfParts ⊥ (⟦<Vec<String> as Serialize>⟧.refuses a1 ∷ [])
      | the_signal.Meet
          a1 a2 a3 ↦ OfParts ⊥ (⟦<Spot as Serialize>⟧.refuses a1 ∷ (⟦<u8 as Serialize>⟧.refuses a2 ∷ (⟦<Option<String> as Serialize>⟧.refuses a3 ∷ [])))
      | the_signal.Distress ↦ OfSink
      | the_signal.Heading a1 ↦ OfParts ⊥ (⟦<i16 as Serialize>⟧.refuses a1 ∷ [])
      | the_signal.Weather a1 a2 ↦ OfParts ⊥
          (⟦<F64Bits as Serialize>⟧.refuses a1 ∷ (⟦<char as Serialize>⟧.refuses a2 ∷ []))
      | the_signal.Cargo a1 ↦ OfParts ⊥
          (⟦<BTreeMap<String, u64> as Serialize>⟧.refuses a1 ∷ [])
      | the_signal.Ports a1 ↦ OfParts ⊥ (⟦<BTreeSet<u16> as Serialize>⟧.refuses a1 ∷ [])
      | the_signal.Chart a1 a2 a3 ↦ OfParts ⊥ (⟦<String as Serialize>⟧.refuses a1
          ∷ (⟦<u128 as Serialize>⟧.refuses a2 ∷ (⟦<ByteBuf as Serialize>⟧.refuses a3 ∷ [])))
      | the_signal.Answer a1 ↦ OfParts ⊥
          (⟦<bool as Serialize>⟧.refuses a1 ∷ [])
      | the_signal.Course a1 ↦ OfParts ⊥ (⟦<Course as Serialize>⟧.refuses a1 ∷ [])
      | the_signal.Pair a1 ↦ OfParts
          ⊥ (⟦<(u8, String) as Serialize>⟧.refuses a1 ∷ [])
      | the_signal.Maybe a1 ↦ OfParts ⊥ (⟦<Option<u32> as Serialize>⟧.refuses a1 ∷ [])
      | the_signal.Pilot a1 ↦ OfParts ⊥ (⟦<String as Serialize>⟧.refuses a1 ∷ [])
      | the_signal.Quarantine ↦ OfSink
      | the_signal.Tug a1 a2 a3 a4 ↦ OfParts ⊥
          (⟦<u8 as Serialize>⟧.refuses a1 ∷ (⟦<u16 as Serialize>⟧.refuses a2 ∷ (⟦<u32 as Serialize>⟧.refuses a3 ∷ (⟦<u64 as Serialize>⟧.refuses a4 ∷ []))))
      | the_signal.Debt a1 ↦ OfParts ⊥ (⟦<i128 as Serialize>⟧.refuses a1 ∷ [])
      | the_signal.Nothing a1 ↦ OfParts ⊥ (⟦<() as Serialize>⟧.refuses a1 ∷ [])
      | the_signal.Lights a1 a2 a3 a4 ↦ OfParts ⊥ (⟦<u8 as Serialize>⟧.refuses a1
          ∷ (⟦<u8 as Serialize>⟧.refuses a2 ∷ (⟦<[u8; 2] as Serialize>⟧.refuses a3 ∷ (⟦<bool as Serialize>⟧.refuses a4 ∷ []))))
      | the_signal.Flags a1 ↦
          OfParts ⊥ (⟦<Vec<(u8, char)> as Serialize>⟧.refuses a1 ∷ [])
      | the_signal.Towed a1 a2 ↦ OfParts ⊥
          (⟦<Box<Spot> as Serialize>⟧.refuses a1 ∷ (⟦<i64 as Serialize>⟧.refuses a2 ∷ []))
      | the_signal.Fog a1 a2 ↦ OfParts ⊥
          (⟦<Option<(u16, u16)> as Serialize>⟧.refuses a1 ∷ (⟦<bool as Serialize>⟧.refuses a2 ∷ []))
      | the_signal.Farewell ↦ OfSink
    ] };

    #[tactic(auto, unfolding(rmp_encode::specs::Data::lower))]
    fn serialize<W: Sink, C: SerializerConfig>(
        &self,
        se: &mut Serializer<W, C>,
    ) -> Result<(), rmp_encode::Error> {
        match self {
            Signal::Silent => se.serialize_unit_variant("Signal", 0, "Silent"),
            Signal::Call(first) => se.serialize_newtype_variant("Signal", 1, "Call", first),
            Signal::At(first, second) => {
                let parts = rmp_encode::Both { first, second };
                se.serialize_tuple_variant_of("Signal", 2, "At", &parts)
            }
            Signal::Sail { course, reef } => {
                let parts = rmp_encode::Both {
                    first: course,
                    second: reef,
                };
                se.serialize_struct_variant_of("Signal", 3, "Sail", &["course", "reef"], &parts)
            }
            Signal::Anchor => se.serialize_unit_variant("Signal", 4, "Anchor"),
            Signal::Depth(first) => se.serialize_newtype_variant("Signal", 5, "Depth", first),
            Signal::Depths(first) => se.serialize_newtype_variant("Signal", 6, "Depths", first),
            Signal::Spotted(first) => se.serialize_newtype_variant("Signal", 7, "Spotted", first),
            Signal::Crew(first) => se.serialize_newtype_variant("Signal", 8, "Crew", first),
            Signal::Meet { spot, hour, name } => {
                let parts = rmp_encode::Three {
                    first: spot,
                    second: hour,
                    third: name,
                };
                se.serialize_struct_variant_of(
                    "Signal",
                    9,
                    "Meet",
                    &["spot", "hour", "name"],
                    &parts,
                )
            }
            Signal::Distress => se.serialize_unit_variant("Signal", 10, "Distress"),
            Signal::Heading(first) => se.serialize_newtype_variant("Signal", 11, "Heading", first),
            Signal::Weather(first, second) => {
                let parts = rmp_encode::Both { first, second };
                se.serialize_tuple_variant_of("Signal", 12, "Weather", &parts)
            }
            Signal::Cargo(first) => se.serialize_newtype_variant("Signal", 13, "Cargo", first),
            Signal::Ports(first) => se.serialize_newtype_variant("Signal", 14, "Ports", first),
            Signal::Chart { name, seal, chart } => {
                let parts = rmp_encode::Three {
                    first: name,
                    second: seal,
                    third: chart,
                };
                se.serialize_struct_variant_of(
                    "Signal",
                    15,
                    "Chart",
                    &["name", "seal", "chart"],
                    &parts,
                )
            }
            Signal::Answer(first) => se.serialize_newtype_variant("Signal", 16, "Answer", first),
            Signal::Course(first) => se.serialize_newtype_variant("Signal", 17, "Course", first),
            Signal::Pair(first) => se.serialize_newtype_variant("Signal", 18, "Pair", first),
            Signal::Maybe(first) => se.serialize_newtype_variant("Signal", 19, "Maybe", first),
            Signal::Pilot { name } => {
                let parts = rmp_encode::One { first: name };
                se.serialize_struct_variant_of("Signal", 20, "Pilot", &["name"], &parts)
            }
            Signal::Quarantine => se.serialize_unit_variant("Signal", 21, "Quarantine"),
            Signal::Tug(first, second, third, fourth) => {
                let parts = rmp_encode::Four {
                    first,
                    second,
                    third,
                    fourth,
                };
                se.serialize_tuple_variant_of("Signal", 22, "Tug", &parts)
            }
            Signal::Debt(first) => se.serialize_newtype_variant("Signal", 23, "Debt", first),
            Signal::Nothing(first) => se.serialize_newtype_variant("Signal", 24, "Nothing", first),
            Signal::Lights {
                left,
                right,
                top,
                lit,
            } => {
                let parts = rmp_encode::Four {
                    first: left,
                    second: right,
                    third: top,
                    fourth: lit,
                };
                se.serialize_struct_variant_of(
                    "Signal",
                    25,
                    "Lights",
                    &["left", "right", "top", "lit"],
                    &parts,
                )
            }
            Signal::Flags(first) => se.serialize_newtype_variant("Signal", 26, "Flags", first),
            Signal::Towed { by, since } => {
                let parts = rmp_encode::Both {
                    first: by,
                    second: since,
                };
                se.serialize_struct_variant_of("Signal", 27, "Towed", &["by", "since"], &parts)
            }
            Signal::Fog(first, second) => {
                let parts = rmp_encode::Both { first, second };
                se.serialize_tuple_variant_of("Signal", 28, "Fog", &parts)
            }
            Signal::Farewell => se.serialize_unit_variant("Signal", 29, "Farewell"),
        }
    }

    fn as_u8(&self, _human: bool) -> Option<u8> {
        match self {
            Signal::Silent => None,
            Signal::Call(_) => None,
            Signal::At(_, _) => None,
            Signal::Sail { .. } => None,
            Signal::Anchor => None,
            Signal::Depth(_) => None,
            Signal::Depths(_) => None,
            Signal::Spotted(_) => None,
            Signal::Crew(_) => None,
            Signal::Meet { .. } => None,
            Signal::Distress => None,
            Signal::Heading(_) => None,
            Signal::Weather(_, _) => None,
            Signal::Cargo(_) => None,
            Signal::Ports(_) => None,
            Signal::Chart { .. } => None,
            Signal::Answer(_) => None,
            Signal::Course(_) => None,
            Signal::Pair(_) => None,
            Signal::Maybe(_) => None,
            Signal::Pilot { .. } => None,
            Signal::Quarantine => None,
            Signal::Tug(_, _, _, _) => None,
            Signal::Debt(_) => None,
            Signal::Nothing(_) => None,
            Signal::Lights { .. } => None,
            Signal::Flags(_) => None,
            Signal::Towed { .. } => None,
            Signal::Fog(_, _) => None,
            Signal::Farewell => None,
        }
    }
}

impl<'de, R: ReadSlice<'de>> Deserialize<'de, R> for Signal {
    ghost reads = { λ human lends m v. OfVariant (codes "Silent"
        ∷ (codes "Call" ∷ (codes "At" ∷ (codes "Sail" ∷ (codes "Anchor"
        ∷ (codes "Depth" ∷ (codes "Depths" ∷ (codes "Spotted"
        ∷ (codes "Crew" ∷ (codes "Meet" ∷ (codes "Distress"
        ∷ (codes "Heading" ∷ (codes "Weather" ∷ (codes "Cargo"
        ∷ (codes "Ports" ∷ (codes "Chart" ∷ (codes "Answer"
        ∷ (codes "Course" ∷ (codes "Pair" ∷ (codes "Maybe"
        ∷ (codes "Pilot" ∷ (codes "Quarantine" ∷ (codes "Tug"
        ∷ (codes "Debt" ∷ (codes "Nothing" ∷ (codes "Lights"
        ∷ (codes "Flags" ∷ (codes "Towed" ∷ (codes "Fog" ∷ (codes "Farewell" ∷ []))))))))))))))))))))))))))))))
        (Case (λ c. (v ≡ the_signal.Silent) × Bare c) (Case
        (λ c. (a1 : _) × (v ≡ the_signal.Call a1) × Content (λ k. ⟦<String as Deserialize<'de, R>>⟧.reads human lends k a1) c)
        (Case (λ c. (a1 : _) × (a2 : _) × (v ≡ the_signal.At a1 a2)
        × Content (λ k. OfRow (AndThen (λ j. ⟦<i32 as Deserialize<'de, R>>⟧.reads human lends j a1)
        (AndThen (λ j. ⟦<i32 as Deserialize<'de, R>>⟧.reads human lends j a2) NoMore)) k) c)
        (Case (λ c. (a1 : _) × (a2 : _) × (v ≡ the_signal.Sail a1 a2)
        × Content (λ k. OfFields (codes "course" ∷ (codes "reef" ∷ []))
        (Field (λ j. ⟦<Course as Deserialize<'de, R>>⟧.reads human lends j a1) (Absent ⟦<Course as Deserialize<'de, R>>⟧.absent a1)
        (Field (λ j. ⟦<u8 as Deserialize<'de, R>>⟧.reads human lends j a2) (Absent ⟦<u8 as Deserialize<'de, R>>⟧.absent a2) NoField)) k) c)
        (Case (λ c. (v ≡ the_signal.Anchor) × Bare c) (Case
        (λ c. (a1 : _) × (v ≡ the_signal.Depth a1) × Content (λ k. ⟦<u16 as Deserialize<'de, R>>⟧.reads human lends k a1) c)
        (Case (λ c. (a1 : _) × (v ≡ the_signal.Depths a1) × Content (λ k. ⟦<[u16; 4] as Deserialize<'de, R>>⟧.reads human lends k a1) c)
        (Case (λ c. (a1 : _) × (v ≡ the_signal.Spotted a1) × Content (λ k. ⟦<Spot as Deserialize<'de, R>>⟧.reads human lends k a1) c)
        (Case (λ c. (a1 : _) × (v ≡ the_signal.Crew a1) × Content (λ k. ⟦<Vec<String> as Deserialize<'de, R>>⟧.reads human lends k a1) c)
        (Case (λ c. (a1 : _) × (a2 : _) × (a3 : _) × (v ≡ the_signal.Meet a1 a2 a3)
        × Content (λ k. OfFields (codes "spot" ∷ (codes "hour" ∷ (codes "name" ∷ [])))
        (Field (λ j. ⟦<Spot as Deserialize<'de, R>>⟧.reads human lends j a1) (Absent ⟦<Spot as Deserialize<'de, R>>⟧.absent a1)
        (Field (λ j. ⟦<u8 as Deserialize<'de, R>>⟧.reads human lends j a2) (Absent ⟦<u8 as Deserialize<'de, R>>⟧.absent a2)
        (Field (λ j. ⟦<Option<String> as Deserialize<'de, R>>⟧.reads human lends j a3) (Absent ⟦<Option<String> as Deserialize<'de, R>>⟧.absent a3)
        NoField))) k) c) (Case (λ c. (v ≡ the_signal.Distress) × Bare c)
        (Case (λ c. (a1 : _) × (v ≡ the_signal.Heading a1) × Content (λ k. ⟦<i16 as Deserialize<'de, R>>⟧.reads human lends k a1) c)
        (Case (λ c. (a1 : _) × (a2 : _) × (v ≡ the_signal.Weather a1 a2)
        × Content (λ k. OfRow (AndThen (λ j. ⟦<F64Bits as Deserialize<'de, R>>⟧.reads human lends j a1)
        (AndThen (λ j. ⟦<char as Deserialize<'de, R>>⟧.reads human lends j a2) NoMore)) k) c)
        (Case (λ c. (a1 : _) × (v ≡ the_signal.Cargo a1) × Content (λ k. ⟦<BTreeMap<String, u64> as Deserialize<'de, R>>⟧.reads human lends k a1) c)
        (Case (λ c. (a1 : _) × (v ≡ the_signal.Ports a1) × Content (λ k. ⟦<BTreeSet<u16> as Deserialize<'de, R>>⟧.reads human lends k a1) c)
        (Case (λ c. (a1 : _) × (a2 : _) × (a3 : _) × (v ≡ the_signal.Chart a1 a2 a3)
        × Content (λ k. OfFields (codes "name" ∷ (codes "seal" ∷ (codes "chart" ∷ [])))
        (Field (λ j. ⟦<String as Deserialize<'de, R>>⟧.reads human lends j a1) (Absent ⟦<String as Deserialize<'de, R>>⟧.absent a1)
        (Field (λ j. ⟦<u128 as Deserialize<'de, R>>⟧.reads human lends j a2) (Absent ⟦<u128 as Deserialize<'de, R>>⟧.absent a2)
        (Field (λ j. ⟦<ByteBuf as Deserialize<'de, R>>⟧.reads human lends j a3) (Absent ⟦<ByteBuf as Deserialize<'de, R>>⟧.absent a3) NoField))) k) c)
        (Case (λ c. (a1 : _) × (v ≡ the_signal.Answer a1) × Content (λ k. ⟦<bool as Deserialize<'de, R>>⟧.reads human lends k a1) c)
        (Case (λ c. (a1 : _) × (v ≡ the_signal.Course a1) × Content (λ k. ⟦<Course as Deserialize<'de, R>>⟧.reads human lends k a1) c)
        (Case (λ c. (a1 : _) × (v ≡ the_signal.Pair a1) × Content (λ k. ⟦<(u8, String) as Deserialize<'de, R>>⟧.reads human lends k a1) c)
        (Case (λ c. (a1 : _) × (v ≡ the_signal.Maybe a1) × Content (λ k. ⟦<Option<u32> as Deserialize<'de, R>>⟧.reads human lends k a1) c)
        (Case (λ c. (a1 : _) × (v ≡ the_signal.Pilot a1) × Content
        (λ k. OfFields (codes "name" ∷ []) (Field (λ j. ⟦<String as Deserialize<'de, R>>⟧.reads human lends j a1)
        (Absent ⟦<String as Deserialize<'de, R>>⟧.absent a1) NoField) k) c)
        (Case (λ c. (v ≡ the_signal.Quarantine) × Bare c) (Case
        (λ c. (a1 : _) × (a2 : _) × (a3 : _) × (a4 : _) × (v ≡ the_signal.Tug a1 a2 a3 a4)
        × Content (λ k. OfRow (AndThen (λ j. ⟦<u8 as Deserialize<'de, R>>⟧.reads human lends j a1)
        (AndThen (λ j. ⟦<u16 as Deserialize<'de, R>>⟧.reads human lends j a2)
        (AndThen (λ j. ⟦<u32 as Deserialize<'de, R>>⟧.reads human lends j a3)
        (AndThen (λ j. ⟦<u64 as Deserialize<'de, R>>⟧.reads human lends j a4) NoMore)))) k) c)
        (Case (λ c. (a1 : _) × (v ≡ the_signal.Debt a1) × Content (λ k. ⟦<i128 as Deserialize<'de, R>>⟧.reads human lends k a1) c)
        (Case (λ c. (a1 : _) × (v ≡ the_signal.Nothing a1) × Content (λ k. ⟦<() as Deserialize<'de, R>>⟧.reads human lends k a1) c)
        (Case (λ c. (a1 : _) × (a2 : _) × (a3 : _) × (a4 : _) × (v ≡ the_signal.Lights a1 a2 a3 a4)
        × Content (λ k. OfFields (codes "left" ∷ (codes "right" ∷ (codes "top" ∷ (codes "lit" ∷ []))))
        (Field (λ j. ⟦<u8 as Deserialize<'de, R>>⟧.reads human lends j a1) (Absent ⟦<u8 as Deserialize<'de, R>>⟧.absent a1)
        (Field (λ j. ⟦<u8 as Deserialize<'de, R>>⟧.reads human lends j a2) (Absent ⟦<u8 as Deserialize<'de, R>>⟧.absent a2)
        (Field (λ j. ⟦<[u8; 2] as Deserialize<'de, R>>⟧.reads human lends j a3) (Absent ⟦<[u8; 2] as Deserialize<'de, R>>⟧.absent a3)
        (Field (λ j. ⟦<bool as Deserialize<'de, R>>⟧.reads human lends j a4) (Absent ⟦<bool as Deserialize<'de, R>>⟧.absent a4) NoField)))) k) c)
        (Case (λ c. (a1 : _) × (v ≡ the_signal.Flags a1) × Content (λ k. ⟦<Vec<(u8, char)> as Deserialize<'de, R>>⟧.reads human lends k a1) c)
        (Case (λ c. (a1 : _) × (a2 : _) × (v ≡ the_signal.Towed a1 a2)
        × Content (λ k. OfFields (codes "by" ∷ (codes "since" ∷ []))
        (Field (λ j. ⟦<Box<Spot> as Deserialize<'de, R>>⟧.reads human lends j a1) (Absent ⟦<Box<Spot> as Deserialize<'de, R>>⟧.absent a1)
        (Field (λ j. ⟦<i64 as Deserialize<'de, R>>⟧.reads human lends j a2) (Absent ⟦<i64 as Deserialize<'de, R>>⟧.absent a2) NoField)) k) c)
        (Case (λ c. (a1 : _) × (a2 : _) × (v ≡ the_signal.Fog a1 a2)
        × Content (λ k. OfRow (AndThen (λ j. ⟦<Option<(u16, u16)> as Deserialize<'de, R>>⟧.reads human lends j a1)
        (AndThen (λ j. ⟦<bool as Deserialize<'de, R>>⟧.reads human lends j a2) NoMore)) k) c)
        (Case (λ c. (v ≡ the_signal.Farewell) × Bare c) NoCase)))))))))))))))))))))))))))))) m };

    ghost absent = { None };

    ghost refuses = { RefusesEnum (codes "Silent" ∷ (codes "Call"
        ∷ (codes "At" ∷ (codes "Sail" ∷ (codes "Anchor" ∷ (codes "Depth"
        ∷ (codes "Depths" ∷ (codes "Spotted" ∷ (codes "Crew"
        ∷ (codes "Meet" ∷ (codes "Distress" ∷ (codes "Heading"
        ∷ (codes "Weather" ∷ (codes "Cargo" ∷ (codes "Ports"
        ∷ (codes "Chart" ∷ (codes "Answer" ∷ (codes "Course"
        ∷ (codes "Pair" ∷ (codes "Maybe" ∷ (codes "Pilot" ∷
        (codes "Quarantine" ∷ (codes "Tug" ∷ (codes "Debt"
        ∷ (codes "Nothing" ∷ (codes "Lights" ∷ (codes "Flags" ∷ (codes "Towed" ∷ (codes "Fog" ∷ (codes "Farewell" ∷ []))))))))))))))))))))))))))))))
        (no_content ∷ (with_content (⟦<String as Deserialize<'de, R>>⟧.refuses)
        ∷ (with_content (RefusesTuple (part_of ⟦<i32 as Deserialize<'de, R>>⟧.reads ⟦<i32 as Deserialize<'de, R>>⟧.refuses
        ∷ (part_of ⟦<i32 as Deserialize<'de, R>>⟧.reads ⟦<i32 as Deserialize<'de, R>>⟧.refuses ∷ [])))
        ∷ (with_content (RefusesFields (codes "course" ∷ (codes "reef" ∷ [])) ⟦<(Course, (u8, ())) as ReadFields<'de, R>>⟧.needed
        ⟦<(Course, (u8, ())) as ReadFields<'de, R>>⟧.parts)
        ∷ (no_content ∷ (with_content (⟦<u16 as Deserialize<'de, R>>⟧.refuses)
        ∷ (with_content (⟦<[u16; 4] as Deserialize<'de, R>>⟧.refuses)
        ∷ (with_content (⟦<Spot as Deserialize<'de, R>>⟧.refuses)
        ∷ (with_content (⟦<Vec<String> as Deserialize<'de, R>>⟧.refuses)
        ∷ (with_content (RefusesFields (codes "spot" ∷ (codes "hour" ∷ (codes "name" ∷ [])))
        ⟦<(Spot, (u8, (Option<String>, ()))) as ReadFields<'de, R>>⟧.needed
        ⟦<(Spot, (u8, (Option<String>, ()))) as ReadFields<'de, R>>⟧.parts)
        ∷ (no_content ∷ (with_content (⟦<i16 as Deserialize<'de, R>>⟧.refuses)
        ∷ (with_content (RefusesTuple (part_of ⟦<F64Bits as Deserialize<'de, R>>⟧.reads ⟦<F64Bits as Deserialize<'de, R>>⟧.refuses
        ∷ (part_of ⟦<char as Deserialize<'de, R>>⟧.reads ⟦<char as Deserialize<'de, R>>⟧.refuses ∷ [])))
        ∷ (with_content (⟦<BTreeMap<String, u64> as Deserialize<'de, R>>⟧.refuses)
        ∷ (with_content (⟦<BTreeSet<u16> as Deserialize<'de, R>>⟧.refuses)
        ∷ (with_content (RefusesFields (codes "name" ∷ (codes "seal" ∷ (codes "chart" ∷ [])))
        ⟦<(String, (u128, (ByteBuf, ()))) as ReadFields<'de, R>>⟧.needed
        ⟦<(String, (u128, (ByteBuf, ()))) as ReadFields<'de, R>>⟧.parts)
        ∷ (with_content (⟦<bool as Deserialize<'de, R>>⟧.refuses)
        ∷ (with_content (⟦<Course as Deserialize<'de, R>>⟧.refuses)
        ∷ (with_content (⟦<(u8, String) as Deserialize<'de, R>>⟧.refuses)
        ∷ (with_content (⟦<Option<u32> as Deserialize<'de, R>>⟧.refuses)
        ∷ (with_content (RefusesFields (codes "name" ∷ []) ⟦<(String, ()) as ReadFields<'de, R>>⟧.needed
        ⟦<(String, ()) as ReadFields<'de, R>>⟧.parts) ∷ (no_content
        ∷ (with_content (RefusesTuple (part_of ⟦<u8 as Deserialize<'de, R>>⟧.reads ⟦<u8 as Deserialize<'de, R>>⟧.refuses
        ∷ (part_of ⟦<u16 as Deserialize<'de, R>>⟧.reads ⟦<u16 as Deserialize<'de, R>>⟧.refuses
        ∷ (part_of ⟦<u32 as Deserialize<'de, R>>⟧.reads ⟦<u32 as Deserialize<'de, R>>⟧.refuses
        ∷ (part_of ⟦<u64 as Deserialize<'de, R>>⟧.reads ⟦<u64 as Deserialize<'de, R>>⟧.refuses ∷ [])))))
        ∷ (with_content (⟦<i128 as Deserialize<'de, R>>⟧.refuses)
        ∷ (with_content (⟦<() as Deserialize<'de, R>>⟧.refuses)
        ∷ (with_content (RefusesFields (codes "left" ∷ (codes "right" ∷ (codes "top" ∷ (codes "lit" ∷ []))))
        ⟦<(u8, u8, [u8; 2], bool, ()) as ReadFields<'de, R>>⟧.needed
        ⟦<(u8, u8, [u8; 2], bool, ()) as ReadFields<'de, R>>⟧.parts)
        ∷ (with_content (⟦<Vec<(u8, char)> as Deserialize<'de, R>>⟧.refuses)
        ∷ (with_content (RefusesFields (codes "by" ∷ (codes "since" ∷ [])) ⟦<(Box<Spot>, (i64, ())) as ReadFields<'de, R>>⟧.needed
        ⟦<(Box<Spot>, (i64, ())) as ReadFields<'de, R>>⟧.parts)
        ∷ (with_content (RefusesTuple (part_of ⟦<Option<(u16, u16)> as Deserialize<'de, R>>⟧.reads ⟦<Option<(u16, u16)> as Deserialize<'de, R>>⟧.refuses
        ∷ (part_of ⟦<bool as Deserialize<'de, R>>⟧.reads ⟦<bool as Deserialize<'de, R>>⟧.refuses ∷ [])))
        ∷ (no_content ∷ [])))))))))))))))))))))))))))))) };

    fn deserialize<C: SerializerConfig>(
        de: &mut Deserializer<R, C>,
    ) -> Result<Signal, rmp_decode::Error> {
        match de.deserialize_enum(&[
            "Silent",
            "Call",
            "At",
            "Sail",
            "Anchor",
            "Depth",
            "Depths",
            "Spotted",
            "Crew",
            "Meet",
            "Distress",
            "Heading",
            "Weather",
            "Cargo",
            "Ports",
            "Chart",
            "Answer",
            "Course",
            "Pair",
            "Maybe",
            "Pilot",
            "Quarantine",
            "Tug",
            "Debt",
            "Nothing",
            "Lights",
            "Flags",
            "Towed",
            "Fog",
            "Farewell",
        ]) {
            Ok((0, variant)) => match variant.unit_variant() {
                Ok(()) => return Ok(Signal::Silent),
                Err(e) => return Err(e),
            },
            Ok((1, variant)) => match variant.newtype_variant() {
                Ok(first) => return Ok(Signal::Call(first)),
                Err(e) => return Err(e),
            },
            Ok((2, variant)) => match variant.newtype_variant() {
                Ok(parts) => {
                    let (first, second) = parts;
                    return Ok(Signal::At(first, second));
                }
                Err(e) => return Err(e),
            },
            Ok((3, variant)) => match variant.fields_variant(&["course", "reef"]) {
                Ok(parts) => {
                    let (course, (reef, ())) = parts;
                    return Ok(Signal::Sail { course, reef });
                }
                Err(e) => return Err(e),
            },
            Ok((4, variant)) => match variant.unit_variant() {
                Ok(()) => return Ok(Signal::Anchor),
                Err(e) => return Err(e),
            },
            Ok((5, variant)) => match variant.newtype_variant() {
                Ok(first) => return Ok(Signal::Depth(first)),
                Err(e) => return Err(e),
            },
            Ok((6, variant)) => match variant.newtype_variant() {
                Ok(first) => return Ok(Signal::Depths(first)),
                Err(e) => return Err(e),
            },
            Ok((7, variant)) => match variant.newtype_variant() {
                Ok(first) => return Ok(Signal::Spotted(first)),
                Err(e) => return Err(e),
            },
            Ok((8, variant)) => match variant.newtype_variant() {
                Ok(first) => return Ok(Signal::Crew(first)),
                Err(e) => return Err(e),
            },
            Ok((9, variant)) => match variant.fields_variant(&["spot", "hour", "name"]) {
                Ok(parts) => {
                    let (spot, (hour, (name, ()))) = parts;
                    return Ok(Signal::Meet { spot, hour, name });
                }
                Err(e) => return Err(e),
            },
            Ok((10, variant)) => match variant.unit_variant() {
                Ok(()) => return Ok(Signal::Distress),
                Err(e) => return Err(e),
            },
            Ok((11, variant)) => match variant.newtype_variant() {
                Ok(first) => return Ok(Signal::Heading(first)),
                Err(e) => return Err(e),
            },
            Ok((12, variant)) => match variant.newtype_variant() {
                Ok(parts) => {
                    let (first, second) = parts;
                    return Ok(Signal::Weather(first, second));
                }
                Err(e) => return Err(e),
            },
            Ok((13, variant)) => match variant.newtype_variant() {
                Ok(first) => return Ok(Signal::Cargo(first)),
                Err(e) => return Err(e),
            },
            Ok((14, variant)) => match variant.newtype_variant() {
                Ok(first) => return Ok(Signal::Ports(first)),
                Err(e) => return Err(e),
            },
            Ok((15, variant)) => match variant.fields_variant(&["name", "seal", "chart"]) {
                Ok(parts) => {
                    let (name, (seal, (chart, ()))) = parts;
                    return Ok(Signal::Chart { name, seal, chart });
                }
                Err(e) => return Err(e),
            },
            Ok((16, variant)) => match variant.newtype_variant() {
                Ok(first) => return Ok(Signal::Answer(first)),
                Err(e) => return Err(e),
            },
            Ok((17, variant)) => match variant.newtype_variant() {
                Ok(first) => return Ok(Signal::Course(first)),
                Err(e) => return Err(e),
            },
            Ok((18, variant)) => match variant.newtype_variant() {
                Ok(first) => return Ok(Signal::Pair(first)),
                Err(e) => return Err(e),
            },
            Ok((19, variant)) => match variant.newtype_variant() {
                Ok(first) => return Ok(Signal::Maybe(first)),
                Err(e) => return Err(e),
            },
            Ok((20, variant)) => match variant.fields_variant(&["name"]) {
                Ok(parts) => {
                    let (name, ()) = parts;
                    return Ok(Signal::Pilot { name });
                }
                Err(e) => return Err(e),
            },
            Ok((21, variant)) => match variant.unit_variant() {
                Ok(()) => return Ok(Signal::Quarantine),
                Err(e) => return Err(e),
            },
            Ok((22, variant)) => match variant.newtype_variant() {
                Ok(parts) => {
                    let (first, second, third, fourth) = parts;
                    return Ok(Signal::Tug(first, second, third, fourth));
                }
                Err(e) => return Err(e),
            },
            Ok((23, variant)) => match variant.newtype_variant() {
                Ok(first) => return Ok(Signal::Debt(first)),
                Err(e) => return Err(e),
            },
            Ok((24, variant)) => match variant.newtype_variant() {
                Ok(first) => return Ok(Signal::Nothing(first)),
                Err(e) => return Err(e),
            },
            Ok((25, variant)) => match variant.fields_variant(&["left", "right", "top", "lit"]) {
                Ok(parts) => {
                    let (left, right, top, lit, ()) = parts;
                    return Ok(Signal::Lights {
                        left,
                        right,
                        top,
                        lit,
                    });
                }
                Err(e) => return Err(e),
            },
            Ok((26, variant)) => match variant.newtype_variant() {
                Ok(first) => return Ok(Signal::Flags(first)),
                Err(e) => return Err(e),
            },
            Ok((27, variant)) => match variant.fields_variant(&["by", "since"]) {
                Ok(parts) => {
                    let (by, (since, ())) = parts;
                    return Ok(Signal::Towed { by, since });
                }
                Err(e) => return Err(e),
            },
            Ok((28, variant)) => match variant.newtype_variant() {
                Ok(parts) => {
                    let (first, second) = parts;
                    return Ok(Signal::Fog(first, second));
                }
                Err(e) => return Err(e),
            },
            Ok((_, variant)) => match variant.unit_variant() {
                Ok(()) => return Ok(Signal::Farewell),
                Err(e) => return Err(e),
            },
            Err(e) => return Err(e),
        }
    }

    fn missing() -> Option<Signal> {
        None
    }
}

impl<'de, R: ReadSlice<'de>> RoundTrip<'de, R> for Signal {
    ghost use Rattle.test_mixed.specs.contracts.mixed.derived.CourseRoundTrip.TheImpl.Laws as course_rounds;
    ghost use Rattle.test_mixed.specs.contracts.mixed.derived.SpotRoundTrip.TheImpl.Laws as spot_rounds;
    ghost use mir.Syntax.{given};

    ghost has_data = { λ human. elim [
      | the_signal.Silent ↦ refl
      | the_signal.Call a1 ↦ newtype_variant_some (codes "Call")
          (⟦<String as Serialize>⟧.data_of a1 human) refl
      | the_signal.At a1 a2 ↦ tuple_variant_all (codes "At")
          (⟦<i32 as Serialize>⟧.data_of a1 human ∷ (⟦<i32 as Serialize>⟧.data_of a2 human ∷ [])) (refl, (refl, tt))
      | the_signal.Sail a1 a2 ↦
          struct_variant_all (codes "Sail") ((codes "course", ⟦<Course as Serialize>⟧.data_of a1 human)
          ∷ ((codes "reef", ⟦<u8 as Serialize>⟧.data_of a2 human) ∷ []))
          ((course_rounds.has_data-law R.row R.ReadSlice.own (given 0) R.Source (given 0) human a1), (refl, tt))
      | the_signal.Anchor ↦ refl
      | the_signal.Depth
          a1 ↦ newtype_variant_some (codes "Depth") (⟦<u16 as Serialize>⟧.data_of a1 human) refl
      | the_signal.Depths a1 ↦ newtype_variant_some
          (codes "Depths") (⟦<[u16; 4] as Serialize>⟧.data_of a1 human) (tuple_some _ (each_some (λ x. ⟦<u16 as Serialize>⟧.data_of x human) (λ x2. refl) a1))
      | the_signal.Spotted a1 ↦ newtype_variant_some (codes "Spotted") (⟦<Spot as Serialize>⟧.data_of a1 human)
          (spot_rounds.has_data-law R.row R.ReadSlice.own (given 0) R.Source (given 0) human a1)
      | the_signal.Crew a1 ↦ newtype_variant_some (codes "Crew")
          (⟦<Vec<String> as Serialize>⟧.data_of a1 human) (slice_some _ (each_some (λ x. ⟦<String as Serialize>⟧.data_of x human) (λ x4. refl) a1.items))
      | the_signal.Meet a1 a2 a3 ↦ struct_variant_all (codes "Meet")
          ((codes "spot", ⟦<Spot as Serialize>⟧.data_of a1 human)
          ∷ ((codes "hour", ⟦<u8 as Serialize>⟧.data_of a2 human) ∷ ((codes "name", ⟦<Option<String> as Serialize>⟧.data_of a3 human) ∷ []))) (
            (spot_rounds.has_data-law R.row R.ReadSlice.own (given 0) R.Source (given 0) human a1),
            (refl, ((option_some (λ x. ⟦<String as Serialize>⟧.data_of x human) (λ x6. refl) a3), tt)),
          )
      | the_signal.Distress ↦ refl
      | the_signal.Heading a1 ↦
          newtype_variant_some (codes "Heading") (⟦<i16 as Serialize>⟧.data_of a1 human) refl
      | the_signal.Weather a1 a2 ↦ tuple_variant_all (codes "Weather")
          (⟦<F64Bits as Serialize>⟧.data_of a1 human ∷ (⟦<char as Serialize>⟧.data_of a2 human ∷ [])) (refl, (refl, tt))
      | the_signal.Cargo a1 ↦
          newtype_variant_some (codes "Cargo") (⟦<BTreeMap<String, u64> as Serialize>⟧.data_of a1 human)
          (mapping_some (λ x. ⟦<String as Serialize>⟧.data_of x human) (λ x. ⟦<u64 as Serialize>⟧.data_of x human) (λ x7. refl) (λ x7. refl) a1.entries)
      | the_signal.Ports a1 ↦ newtype_variant_some (codes "Ports") (⟦<BTreeSet<u16> as Serialize>⟧.data_of a1 human)
          (sequence_some _ (each_some (λ x. ⟦<u16 as Serialize>⟧.data_of x human) (λ x8. refl) a1.keys))
      | the_signal.Chart a1 a2 a3 ↦ struct_variant_all
          (codes "Chart") ((codes "name", ⟦<String as Serialize>⟧.data_of a1 human)
          ∷ ((codes "seal", ⟦<u128 as Serialize>⟧.data_of a2 human) ∷ ((codes "chart", ⟦<ByteBuf as Serialize>⟧.data_of a3 human) ∷ [])))
          (refl, (refl, (refl, tt)))
      | the_signal.Answer a1 ↦ newtype_variant_some (codes "Answer") (⟦<bool as Serialize>⟧.data_of a1 human) refl
      | the_signal.Course a1 ↦ newtype_variant_some (codes "Course") (⟦<Course as Serialize>⟧.data_of a1 human)
          (course_rounds.has_data-law R.row R.ReadSlice.own (given 0) R.Source (given 0) human a1)
      | the_signal.Pair a1 ↦ newtype_variant_some (codes "Pair")
          (⟦<(u8, String) as Serialize>⟧.data_of a1 human) (tuple_all
          (⟦<u8 as Serialize>⟧.data_of a1.0 human ∷ (⟦<String as Serialize>⟧.data_of a1.1 human ∷ [])) (refl, (refl, tt)))
      | the_signal.Maybe a1 ↦
          newtype_variant_some (codes "Maybe") (⟦<Option<u32> as Serialize>⟧.data_of a1 human)
          (option_some (λ x. ⟦<u32 as Serialize>⟧.data_of x human) (λ x10. refl) a1)
      | the_signal.Pilot a1 ↦ struct_variant_all (codes "Pilot")
          ((codes "name", ⟦<String as Serialize>⟧.data_of a1 human) ∷ []) (refl, tt)
      | the_signal.Quarantine ↦ refl
      | the_signal.Tug a1 a2 a3 a4 ↦
          tuple_variant_all (codes "Tug") (⟦<u8 as Serialize>⟧.data_of a1 human
          ∷ (⟦<u16 as Serialize>⟧.data_of a2 human ∷ (⟦<u32 as Serialize>⟧.data_of a3 human ∷ (⟦<u64 as Serialize>⟧.data_of a4 human ∷ []))))
          (refl, (refl, (refl, (refl, tt))))
      | the_signal.Debt a1 ↦ newtype_variant_some (codes "Debt") (⟦<i128 as Serialize>⟧.data_of a1 human) refl
      | the_signal.Nothing a1 ↦ newtype_variant_some (codes "Nothing") (⟦<() as Serialize>⟧.data_of a1 human) refl
      | the_signal.Lights a1 a2 a3 a4 ↦
          struct_variant_all (codes "Lights") ((codes "left", ⟦<u8 as Serialize>⟧.data_of a1 human)
          ∷ ((codes "right", ⟦<u8 as Serialize>⟧.data_of a2 human)
          ∷ ((codes "top", ⟦<[u8; 2] as Serialize>⟧.data_of a3 human) ∷ ((codes "lit", ⟦<bool as Serialize>⟧.data_of a4 human) ∷ []))))
          (refl, (refl, ((tuple_some _ (each_some (λ x. ⟦<u8 as Serialize>⟧.data_of x human) (λ x11. refl) a3)), (refl, tt))))
      | the_signal.Flags a1 ↦
          newtype_variant_some (codes "Flags") (⟦<Vec<(u8, char)> as Serialize>⟧.data_of a1 human)
          (slice_some _ (each_some (λ x. ⟦<(u8, char) as Serialize>⟧.data_of x human)
          (λ x12. (tuple_all (⟦<u8 as Serialize>⟧.data_of x12.0 human ∷ (⟦<char as Serialize>⟧.data_of x12.1 human ∷ [])) (refl, (refl, tt)))) a1.items))
      | the_signal.Towed a1 a2 ↦ struct_variant_all (codes "Towed")
          ((codes "by", ⟦<Box<Spot> as Serialize>⟧.data_of a1 human) ∷ ((codes "since", ⟦<i64 as Serialize>⟧.data_of a2 human) ∷ []))
          ((spot_rounds.has_data-law R.row R.ReadSlice.own (given 0) R.Source (given 0) human a1.value), (refl, tt))
      | the_signal.Fog a1 a2 ↦
          tuple_variant_all (codes "Fog") (⟦<Option<(u16, u16)> as Serialize>⟧.data_of a1 human ∷ (⟦<bool as Serialize>⟧.data_of a2 human ∷ [])) (
            (option_some (λ x. ⟦<(u16, u16) as Serialize>⟧.data_of x human)
                (λ x14. (tuple_all (⟦<u16 as Serialize>⟧.data_of x14.0 human ∷ (⟦<u16 as Serialize>⟧.data_of x14.1 human ∷ [])) (refl, (refl, tt)))) a1),
            (refl, tt),
          )
      | the_signal.Farewell ↦ refl
    ] };

    ghost round = { λ lent s. let names = codes "Silent"
        ∷ (codes "Call" ∷ (codes "At" ∷ (codes "Sail" ∷ (codes "Anchor"
        ∷ (codes "Depth" ∷ (codes "Depths" ∷ (codes "Spotted"
        ∷ (codes "Crew" ∷ (codes "Meet" ∷ (codes "Distress"
        ∷ (codes "Heading" ∷ (codes "Weather" ∷ (codes "Cargo"
        ∷ (codes "Ports" ∷ (codes "Chart" ∷ (codes "Answer"
        ∷ (codes "Course" ∷ (codes "Pair" ∷ (codes "Maybe"
        ∷ (codes "Pilot" ∷ (codes "Quarantine" ∷ (codes "Tug"
        ∷ (codes "Debt" ∷ (codes "Nothing" ∷ (codes "Lights"
        ∷ (codes "Flags" ∷ (codes "Towed" ∷ (codes "Fog" ∷ (codes "Farewell" ∷ [])))))))))))))))))))))))))))))
        in elim [
          | the_signal.Silent ↦ λ fits. bare_row s names (codes "Silent") 0 refl _ (refl, tt)
          | the_signal.Call a1 ↦ λ fits. newtype_variant_row s
              names (codes "Call") 1 refl _ _ (λ j. ⟦<String as Deserialize<'de, R>>⟧.reads s.human R.lends j a1) (λ m h. (a1, refl, h))
              (string_row s (string_bytes a1))
          | the_signal.At a1 a2 ↦ λ fits. tuple_variant_row s names (codes "At") 2 refl _ _ _ (λ m h. (a1, a2, refl, h))
              (rows_cons s _ _ (λ j. ⟦<i32 as Deserialize<'de, R>>⟧.reads s.human R.lends j a1) _ (signed_row_32 s a1 fits.0)
              (rows_cons s _ _ (λ j. ⟦<i32 as Deserialize<'de, R>>⟧.reads s.human R.lends j a2) _ (signed_row_32 s a2 fits.1) (rows_none s)))
          | the_signal.Sail a1
              a2 ↦ λ fits. struct_variant_row s names (codes "Sail") 3 refl _ (codes "course" ∷ (codes "reef" ∷ [])) _ _ refl (λ m h. (a1, a2, refl, h))
              (fields_cons s (codes "course") _ _ _ (λ j. ⟦<Course as Deserialize<'de, R>>⟧.reads s.human R.lends j a1)
              (Absent ⟦<Course as Deserialize<'de, R>>⟧.absent a1) _
              (course_rounds.round-law R.row R.ReadSlice.own (given 0) R.Source (given 0) (λ e. cc) s a1 fits.0)
              (fields_cons s (codes "reef") _ _ _ (λ j. ⟦<u8 as Deserialize<'de, R>>⟧.reads s.human R.lends j a2) (Absent ⟦<u8 as Deserialize<'de, R>>⟧.absent a2)
              _ (byte_row s a2 fits.1) (fields_none s)))
          | the_signal.Anchor ↦ λ fits. bare_row s names (codes "Anchor") 4 refl _ (refl, tt)
          | the_signal.Depth a1
              ↦ λ fits. newtype_variant_row s names (codes "Depth") 5 refl _ _ (λ j. ⟦<u16 as Deserialize<'de, R>>⟧.reads s.human R.lends j a1)
              (λ m h. (a1, refl, h)) (unsigned_row_16 s a1 fits)
          | the_signal.Depths a1 ↦ λ fits. newtype_variant_row s names (codes "Depths") 6 refl _ _
              (λ j. ⟦<[u16; 4] as Deserialize<'de, R>>⟧.reads s.human R.lends j a1) (λ m h. (a1, refl, h))
              (tuple_row s _ (Exactly 4 (⟦<u16 as Deserialize<'de, R>>⟧.reads s.human R.lends) a1)
              (rows_map s _ _ _ (λ ms each. (fits.0, each)) (each_row s (λ x. ⟦<u16 as Serialize>⟧.data_of x s.human) ⟦<u16 as Serialize>⟧.is_value
              (⟦<u16 as Deserialize<'de, R>>⟧.reads s.human R.lends) (λ x15 h15. (unsigned_row_16 s x15 h15)) a1 fits.1)))
          | the_signal.Spotted a1 ↦ λ fits.
              newtype_variant_row s names (codes "Spotted") 7 refl _ _ (λ j. ⟦<Spot as Deserialize<'de, R>>⟧.reads s.human R.lends j a1) (λ m h. (a1, refl, h))
              (spot_rounds.round-law R.row R.ReadSlice.own (given 0) R.Source (given 0) (λ e. cc) s a1 fits)
          | the_signal.Crew a1 ↦ λ fits. newtype_variant_row s
              names (codes "Crew") 8 refl _ _ (λ j. ⟦<Vec<String> as Deserialize<'de, R>>⟧.reads s.human R.lends j a1) (λ m h. (a1, refl, h))
              (slice_row s _ (λ ms. ReadsEach (⟦<String as Deserialize<'de, R>>⟧.reads s.human R.lends) ms a1.items)
              (each_row s (λ x. ⟦<String as Serialize>⟧.data_of x s.human) ⟦<String as Serialize>⟧.is_value
              (⟦<String as Deserialize<'de, R>>⟧.reads s.human R.lends) (λ x16 h16. (string_row s (string_bytes x16))) a1.items fits))
          | the_signal.Meet a1 a2 a3
              ↦ λ fits. struct_variant_row s names (codes "Meet") 9 refl _ (codes "spot" ∷ (codes "hour" ∷ (codes "name" ∷ []))) _ _ refl
              (λ m h. (a1, a2, a3, refl, h)) (fields_cons s (codes "spot") _ _ _ (λ j. ⟦<Spot as Deserialize<'de, R>>⟧.reads s.human R.lends j a1)
              (Absent ⟦<Spot as Deserialize<'de, R>>⟧.absent a1) _
              (spot_rounds.round-law R.row R.ReadSlice.own (given 0) R.Source (given 0) (λ e. cc) s a1 fits.0)
              (fields_cons s (codes "hour") _ _ _ (λ j. ⟦<u8 as Deserialize<'de, R>>⟧.reads s.human R.lends j a2) (Absent ⟦<u8 as Deserialize<'de, R>>⟧.absent a2)
              _ (byte_row s a2 fits.1) (fields_cons s (codes "name") _ _ _ (λ j. ⟦<Option<String> as Deserialize<'de, R>>⟧.reads s.human R.lends j a3)
              (Absent ⟦<Option<String> as Deserialize<'de, R>>⟧.absent a3) _
              (option_row s (λ x. ⟦<String as Serialize>⟧.data_of x s.human) ⟦<String as Serialize>⟧.is_value
              (⟦<String as Deserialize<'de, R>>⟧.reads s.human R.lends) (λ x18. text_other s (string_bytes x18)) (λ x17 h17. (string_row s (string_bytes x17))) a3
              fits.2) (fields_none s))))
          | the_signal.Distress ↦ λ fits. bare_row s names (codes "Distress") 10 refl _ (refl, tt)
          | the_signal.Heading a1 ↦
              λ fits. newtype_variant_row s names (codes "Heading") 11 refl _ _ (λ j. ⟦<i16 as Deserialize<'de, R>>⟧.reads s.human R.lends j a1)
              (λ m h. (a1, refl, h)) (signed_row_16 s a1 fits)
          | the_signal.Weather a1 a2 ↦ λ fits. tuple_variant_row s names (codes "Weather") 12 refl _ _ _
              (λ m h. (a1, a2, refl, h)) (rows_cons s _ _ (λ j. ⟦<F64Bits as Deserialize<'de, R>>⟧.reads s.human R.lends j a1) _ (float64_row s a1.0)
              (rows_cons s _ _ (λ j. ⟦<char as Deserialize<'de, R>>⟧.reads s.human R.lends j a2) _ (char_row s a2 fits.1) (rows_none s)))
          | the_signal.Cargo a1 ↦
              λ fits. newtype_variant_row s names (codes "Cargo") 13 refl _ _ (λ j. ⟦<BTreeMap<String, u64> as Deserialize<'de, R>>⟧.reads s.human R.lends j a1)
              (λ m h. (a1, refl, h)) (map_row s (λ x. ⟦<String as Serialize>⟧.data_of x s.human) (λ x. ⟦<u64 as Serialize>⟧.data_of x s.human)
              ⟦<String as Serialize>⟧.is_value ⟦<u64 as Serialize>⟧.is_value (⟦<String as Deserialize<'de, R>>⟧.reads s.human R.lends)
              (⟦<u64 as Deserialize<'de, R>>⟧.reads s.human R.lends) (λ x19 h19. (string_row s (string_bytes x19))) (λ x20 h20. (unsigned_row_64 s x20 h20))
              (on_total (λ x. string_bytes x) nat_list_cmp_total) a1.entries fits.1 fits.0)
          | the_signal.Ports a1 ↦ λ fits. newtype_variant_row s names
              (codes "Ports") 14 refl _ _ (λ j. ⟦<BTreeSet<u16> as Deserialize<'de, R>>⟧.reads s.human R.lends j a1) (λ m h. (a1, refl, h))
              (set_row s (λ x. ⟦<u16 as Serialize>⟧.data_of x s.human) ⟦<u16 as Serialize>⟧.is_value (⟦<u16 as Deserialize<'de, R>>⟧.reads s.human R.lends)
              (λ x21 h21. (unsigned_row_16 s x21 h21)) ⟦<u16 as Ord>⟧.cmp a1.keys fits.1 fits.0)
          | the_signal.Chart a1 a2 a3 ↦ λ fits. struct_variant_row s names
              (codes "Chart") 15 refl _ (codes "name" ∷ (codes "seal" ∷ (codes "chart" ∷ []))) _ _ refl (λ m h. (a1, a2, a3, refl, h))
              (fields_cons s (codes "name") _ _ _ (λ j. ⟦<String as Deserialize<'de, R>>⟧.reads s.human R.lends j a1)
              (Absent ⟦<String as Deserialize<'de, R>>⟧.absent a1) _ (string_row s (string_bytes a1))
              (fields_cons s (codes "seal") _ _ _ (λ j. ⟦<u128 as Deserialize<'de, R>>⟧.reads s.human R.lends j a2)
              (Absent ⟦<u128 as Deserialize<'de, R>>⟧.absent a2) _ (unsigned128_row s a2 fits.1)
              (fields_cons s (codes "chart") _ _ _ (λ j. ⟦<ByteBuf as Deserialize<'de, R>>⟧.reads s.human R.lends j a3)
              (Absent ⟦<ByteBuf as Deserialize<'de, R>>⟧.absent a3) _ (buffer_row s (buffer_bytes a3)) (fields_none s))))
          | the_signal.Answer a1 ↦ λ fits.
              newtype_variant_row s names (codes "Answer") 16 refl _ _ (λ j. ⟦<bool as Deserialize<'de, R>>⟧.reads s.human R.lends j a1) (λ m h. (a1, refl, h))
              (truth_row s a1)
          | the_signal.Course a1 ↦ λ fits. newtype_variant_row s names (codes "Course") 17 refl _ _
              (λ j. ⟦<Course as Deserialize<'de, R>>⟧.reads s.human R.lends j a1) (λ m h. (a1, refl, h))
              (course_rounds.round-law R.row R.ReadSlice.own (given 0) R.Source (given 0) (λ e. cc) s a1 fits)
          | the_signal.Pair a1 ↦ λ fits. newtype_variant_row
              s names (codes "Pair") 18 refl _ _ (λ j. ⟦<(u8, String) as Deserialize<'de, R>>⟧.reads s.human R.lends j a1) (λ m h. (a1, refl, h))
              (tuple_row s _ _ (rows_cons s _ _ (λ j. ⟦<u8 as Deserialize<'de, R>>⟧.reads s.human R.lends j a1.0) _ (byte_row s a1.0 fits.0)
              (rows_cons s _ _ (λ j. ⟦<String as Deserialize<'de, R>>⟧.reads s.human R.lends j a1.1) _ (string_row s (string_bytes a1.1)) (rows_none s))))
          | the_signal.Maybe a1 ↦ λ fits. newtype_variant_row s names (codes "Maybe") 19 refl _ _
              (λ j. ⟦<Option<u32> as Deserialize<'de, R>>⟧.reads s.human R.lends j a1) (λ m h. (a1, refl, h))
              (option_row s (λ x. ⟦<u32 as Serialize>⟧.data_of x s.human) ⟦<u32 as Serialize>⟧.is_value (⟦<u32 as Deserialize<'de, R>>⟧.reads s.human R.lends)
              (λ x23. pos_other s x23) (λ x22 h22. (unsigned_row_32 s x22 h22)) a1 fits)
          | the_signal.Pilot a1 ↦ λ fits. struct_variant_row s names
              (codes "Pilot") 20 refl _ (codes "name" ∷ []) _ _ refl (λ m h. (a1, refl, h))
              (fields_cons s (codes "name") _ _ _ (λ j. ⟦<String as Deserialize<'de, R>>⟧.reads s.human R.lends j a1)
              (Absent ⟦<String as Deserialize<'de, R>>⟧.absent a1) _ (string_row s (string_bytes a1)) (fields_none s))
          | the_signal.Quarantine ↦ λ fits. bare_row
              s names (codes "Quarantine") 21 refl _ (refl, tt)
          | the_signal.Tug a1 a2 a3 a4 ↦ λ fits. tuple_variant_row s names (codes "Tug") 22 refl _ _ _
              (λ m h. (a1, a2, a3, a4, refl, h)) (rows_cons s _ _ (λ j. ⟦<u8 as Deserialize<'de, R>>⟧.reads s.human R.lends j a1) _ (byte_row s a1 fits.0)
              (rows_cons s _ _ (λ j. ⟦<u16 as Deserialize<'de, R>>⟧.reads s.human R.lends j a2) _ (unsigned_row_16 s a2 fits.1)
              (rows_cons s _ _ (λ j. ⟦<u32 as Deserialize<'de, R>>⟧.reads s.human R.lends j a3) _ (unsigned_row_32 s a3 fits.2)
              (rows_cons s _ _ (λ j. ⟦<u64 as Deserialize<'de, R>>⟧.reads s.human R.lends j a4) _ (unsigned_row_64 s a4 fits.3) (rows_none s)))))
          | the_signal.Debt a1 ↦ λ fits. newtype_variant_row s names (codes "Debt") 23 refl _ _
              (λ j. ⟦<i128 as Deserialize<'de, R>>⟧.reads s.human R.lends j a1) (λ m h. (a1, refl, h)) (signed128_row s a1 fits)
          | the_signal.Nothing a1 ↦ λ fits.
              newtype_variant_row s names (codes "Nothing") 24 refl _ _ (λ j. ⟦<() as Deserialize<'de, R>>⟧.reads s.human R.lends j a1) (λ m h. (a1, refl, h))
              (unit_row s)
          | the_signal.Lights a1 a2 a3 a4 ↦ λ fits. struct_variant_row s names (codes "Lights") 25 refl _
              (codes "left" ∷ (codes "right" ∷ (codes "top" ∷ (codes "lit" ∷ [])))) _ _ refl (λ m h. (a1, a2, a3, a4, refl, h))
              (fields_cons s (codes "left") _ _ _ (λ j. ⟦<u8 as Deserialize<'de, R>>⟧.reads s.human R.lends j a1) (Absent ⟦<u8 as Deserialize<'de, R>>⟧.absent a1)
              _ (byte_row s a1 fits.0) (fields_cons s (codes "right") _ _ _ (λ j. ⟦<u8 as Deserialize<'de, R>>⟧.reads s.human R.lends j a2)
              (Absent ⟦<u8 as Deserialize<'de, R>>⟧.absent a2) _ (byte_row s a2 fits.1)
              (fields_cons s (codes "top") _ _ _ (λ j. ⟦<[u8; 2] as Deserialize<'de, R>>⟧.reads s.human R.lends j a3)
              (Absent ⟦<[u8; 2] as Deserialize<'de, R>>⟧.absent a3) _
              (tuple_row s _ (Exactly 2 (⟦<u8 as Deserialize<'de, R>>⟧.reads s.human R.lends) a3)
              (rows_map s _ _ _ (λ ms each. (fits.2.0, each)) (each_row s (λ x. ⟦<u8 as Serialize>⟧.data_of x s.human) ⟦<u8 as Serialize>⟧.is_value
              (⟦<u8 as Deserialize<'de, R>>⟧.reads s.human R.lends) (λ x24 h24. (byte_row s x24 h24)) a3 fits.2.1)))
              (fields_cons s (codes "lit") _ _ _ (λ j. ⟦<bool as Deserialize<'de, R>>⟧.reads s.human R.lends j a4)
              (Absent ⟦<bool as Deserialize<'de, R>>⟧.absent a4) _ (truth_row s a4) (fields_none s)))))
          | the_signal.Flags a1 ↦ λ fits. newtype_variant_row s
              names (codes "Flags") 26 refl _ _ (λ j. ⟦<Vec<(u8, char)> as Deserialize<'de, R>>⟧.reads s.human R.lends j a1) (λ m h. (a1, refl, h))
              (slice_row s _ (λ ms. ReadsEach (⟦<(u8, char) as Deserialize<'de, R>>⟧.reads s.human R.lends) ms a1.items)
              (each_row s (λ x. ⟦<(u8, char) as Serialize>⟧.data_of x s.human) ⟦<(u8, char) as Serialize>⟧.is_value
              (⟦<(u8, char) as Deserialize<'de, R>>⟧.reads s.human R.lends)
              (λ x25 h25. (tuple_row s _ _ (rows_cons s _ _ (λ j. ⟦<u8 as Deserialize<'de, R>>⟧.reads s.human R.lends j x25.0) _ (byte_row s x25.0 h25.0)
              (rows_cons s _ _ (λ j. ⟦<char as Deserialize<'de, R>>⟧.reads s.human R.lends j x25.1) _ (char_row s x25.1 h25.1) (rows_none s))))) a1.items fits))
          | the_signal.Towed a1 a2 ↦ λ fits. struct_variant_row s names (codes "Towed") 27 refl _ (codes "by" ∷ (codes "since" ∷ [])) _ _ refl
              (λ m h. (a1, a2, refl, h)) (fields_cons s (codes "by") _ _ _ (λ j. ⟦<Box<Spot> as Deserialize<'de, R>>⟧.reads s.human R.lends j a1)
              (Absent ⟦<Box<Spot> as Deserialize<'de, R>>⟧.absent a1) _
              (spot_rounds.round-law R.row R.ReadSlice.own (given 0) R.Source (given 0) (λ e. cc) s a1.value fits.0)
              (fields_cons s (codes "since") _ _ _ (λ j. ⟦<i64 as Deserialize<'de, R>>⟧.reads s.human R.lends j a2)
              (Absent ⟦<i64 as Deserialize<'de, R>>⟧.absent a2) _ (signed_row_64 s a2 fits.1) (fields_none s)))
          | the_signal.Fog a1 a2 ↦ λ fits. tuple_variant_row
              s names (codes "Fog") 28 refl _ _ _ (λ m h. (a1, a2, refl, h))
              (rows_cons s _ _ (λ j. ⟦<Option<(u16, u16)> as Deserialize<'de, R>>⟧.reads s.human R.lends j a1) _
              (option_row s (λ x. ⟦<(u16, u16) as Serialize>⟧.data_of x s.human) ⟦<(u16, u16) as Serialize>⟧.is_value
              (⟦<(u16, u16) as Deserialize<'de, R>>⟧.reads s.human R.lends) (λ x27. tuple_other s _)
              (λ x26 h26. (tuple_row s _ _ (rows_cons s _ _ (λ j. ⟦<u16 as Deserialize<'de, R>>⟧.reads s.human R.lends j x26.0) _ (unsigned_row_16 s x26.0 h26.0)
              (rows_cons s _ _ (λ j. ⟦<u16 as Deserialize<'de, R>>⟧.reads s.human R.lends j x26.1) _ (unsigned_row_16 s x26.1 h26.1) (rows_none s))))) a1 fits.0)
              (rows_cons s _ _ (λ j. ⟦<bool as Deserialize<'de, R>>⟧.reads s.human R.lends j a2) _ (truth_row s a2) (rows_none s)))
          | the_signal.Farewell ↦
              λ fits. bare_row s names (codes "Farewell") 29 refl _ (refl, tt)
        ] };

    ghost same = { λ v w. elim v [
      | the_signal.Silent ↦ (w ≡ the_signal.Silent)
      | the_signal.Call a1 ↦ (b1 : _) × (w ≡ the_signal.Call b1)
          × ⟦<String as RoundTrip<'de, R>>⟧.same a1 b1
      | the_signal.At a1 a2 ↦ (b1 : _) × (b2 : _) × (w ≡ the_signal.At b1 b2)
          × ⟦<i32 as RoundTrip<'de, R>>⟧.same a1 b1 × ⟦<i32 as RoundTrip<'de, R>>⟧.same a2 b2
      | the_signal.Sail a1 a2 ↦ (b1 : _) × (b2 : _)
          × (w ≡ the_signal.Sail b1 b2) × ⟦<Course as RoundTrip<'de, R>>⟧.same a1 b1
          × ⟦<u8 as RoundTrip<'de, R>>⟧.same a2 b2
      | the_signal.Anchor ↦ (w ≡ the_signal.Anchor)
      | the_signal.Depth a1 ↦ (b1 : _) × (w ≡ the_signal.Depth b1)
          × ⟦<u16 as RoundTrip<'de, R>>⟧.same a1 b1
      | the_signal.Depths a1 ↦ (b1 : _) × (w ≡ the_signal.Depths b1)
          × ⟦<[u16; 4] as RoundTrip<'de, R>>⟧.same a1 b1
      | the_signal.Spotted a1 ↦ (b1 : _) × (w ≡ the_signal.Spotted b1)
          × ⟦<Spot as RoundTrip<'de, R>>⟧.same a1 b1
      | the_signal.Crew a1 ↦ (b1 : _) × (w ≡ the_signal.Crew b1)
          × ⟦<Vec<String> as RoundTrip<'de, R>>⟧.same a1 b1
      | the_signal.Meet a1 a2 a3 ↦ (b1 : _) × (b2 : _) × (b3 : _) × (w ≡ the_signal.Meet b1 b2 b3)
          × ⟦<Spot as RoundTrip<'de, R>>⟧.same a1 b1 × ⟦<u8 as RoundTrip<'de, R>>⟧.same a2 b2
          × ⟦<Option<String> as RoundTrip<'de, R>>⟧.same a3 b3
      | the_signal.Distress ↦ (w ≡ the_signal.Distress)
      | the_signal.Heading a1 ↦ (b1 : _)
          × (w ≡ the_signal.Heading b1) × ⟦<i16 as RoundTrip<'de, R>>⟧.same a1 b1
      | the_signal.Weather a1 a2 ↦ (b1 : _) × (b2 : _)
          × (w ≡ the_signal.Weather b1 b2) × ⟦<F64Bits as RoundTrip<'de, R>>⟧.same a1 b1
          × ⟦<char as RoundTrip<'de, R>>⟧.same a2 b2
      | the_signal.Cargo a1 ↦ (b1 : _) × (w ≡ the_signal.Cargo b1)
          × ⟦<BTreeMap<String, u64> as RoundTrip<'de, R>>⟧.same a1 b1
      | the_signal.Ports a1 ↦ (b1 : _) × (w ≡ the_signal.Ports b1)
          × ⟦<BTreeSet<u16> as RoundTrip<'de, R>>⟧.same a1 b1
      | the_signal.Chart a1 a2 a3 ↦ (b1 : _) × (b2 : _) × (b3 : _) × (w ≡ the_signal.Chart b1 b2 b3)
          × ⟦<String as RoundTrip<'de, R>>⟧.same a1 b1 × ⟦<u128 as RoundTrip<'de, R>>⟧.same a2 b2
          × ⟦<ByteBuf as RoundTrip<'de, R>>⟧.same a3 b3
      | the_signal.Answer a1 ↦ (b1 : _) × (w ≡ the_signal.Answer b1)
          × ⟦<bool as RoundTrip<'de, R>>⟧.same a1 b1
      | the_signal.Course a1 ↦ (b1 : _) × (w ≡ the_signal.Course b1)
          × ⟦<Course as RoundTrip<'de, R>>⟧.same a1 b1
      | the_signal.Pair a1 ↦ (b1 : _) × (w ≡ the_signal.Pair b1)
          × ⟦<(u8, String) as RoundTrip<'de, R>>⟧.same a1 b1
      | the_signal.Maybe a1 ↦ (b1 : _) × (w ≡ the_signal.Maybe b1)
          × ⟦<Option<u32> as RoundTrip<'de, R>>⟧.same a1 b1
      | the_signal.Pilot a1 ↦ (b1 : _) × (w ≡ the_signal.Pilot b1)
          × ⟦<String as RoundTrip<'de, R>>⟧.same a1 b1
      | the_signal.Quarantine ↦ (w ≡ the_signal.Quarantine)
      | the_signal.Tug a1 a2 a3 a4 ↦ (b1 : _)
          × (b2 : _) × (b3 : _) × (b4 : _) × (w ≡ the_signal.Tug b1 b2 b3 b4) × ⟦<u8 as RoundTrip<'de, R>>⟧.same a1 b1
          × ⟦<u16 as RoundTrip<'de, R>>⟧.same a2 b2 × ⟦<u32 as RoundTrip<'de, R>>⟧.same a3 b3
          × ⟦<u64 as RoundTrip<'de, R>>⟧.same a4 b4
      | the_signal.Debt a1 ↦ (b1 : _) × (w ≡ the_signal.Debt b1)
          × ⟦<i128 as RoundTrip<'de, R>>⟧.same a1 b1
      | the_signal.Nothing a1 ↦ (b1 : _) × (w ≡ the_signal.Nothing b1)
          × ⟦<() as RoundTrip<'de, R>>⟧.same a1 b1
      | the_signal.Lights a1 a2 a3 a4 ↦ (b1 : _) × (b2 : _) × (b3 : _) × (b4 : _)
          × (w ≡ the_signal.Lights b1 b2 b3 b4) × ⟦<u8 as RoundTrip<'de, R>>⟧.same a1 b1 × ⟦<u8 as RoundTrip<'de, R>>⟧.same a2 b2
          × ⟦<[u8; 2] as RoundTrip<'de, R>>⟧.same a3 b3 × ⟦<bool as RoundTrip<'de, R>>⟧.same a4 b4
      | the_signal.Flags a1 ↦ (b1 : _)
          × (w ≡ the_signal.Flags b1) × ⟦<Vec<(u8, char)> as RoundTrip<'de, R>>⟧.same a1 b1
      | the_signal.Towed a1 a2 ↦ (b1 : _) × (b2 : _)
          × (w ≡ the_signal.Towed b1 b2) × ⟦<Box<Spot> as RoundTrip<'de, R>>⟧.same a1 b1
          × ⟦<i64 as RoundTrip<'de, R>>⟧.same a2 b2
      | the_signal.Fog a1 a2 ↦ (b1 : _) × (b2 : _) × (w ≡ the_signal.Fog b1 b2)
          × ⟦<Option<(u16, u16)> as RoundTrip<'de, R>>⟧.same a1 b1
          × ⟦<bool as RoundTrip<'de, R>>⟧.same a2 b2
      | the_signal.Farewell ↦ (w ≡ the_signal.Farewell)
    ] };

    ghost alike = { λ human. elim [
      | the_signal.Silent ↦ λ w h. variant_alike (λ x. ⟦<Signal as Serialize>⟧.data_of x human) w the_signal.Silent h
          (λ i. Some (unit_variant (codes "Silent")))
      | the_signal.Call a1 ↦ λ w h. variant_alike (λ x. ⟦<Signal as Serialize>⟧.data_of x human) w
          (the_signal.Call h.0) h.1 (λ i. newtype_variant_of (codes "Call") (text_alike (string_bytes a1) (string_bytes h.0) h.2 i))
      | the_signal.At a1 a2 ↦
          λ w h. variant_alike (λ x. ⟦<Signal as Serialize>⟧.data_of x human) w (the_signal.At h.0 h.1) h.2
          (λ i. tuple_variant_of (codes "At") ((⟦<i32 as Serialize>⟧.data_of (h.3 i) human) ∷ ((⟦<i32 as Serialize>⟧.data_of (h.4 i) human) ∷ [])))
      | the_signal.Sail a1 a2 ↦ λ w h. variant_alike (λ x. ⟦<Signal as Serialize>⟧.data_of x human) w (the_signal.Sail h.0 h.1) h.2
          (λ i. struct_variant_of (codes "Sail") ((
            codes "course",
            (course_rounds.alike-law R.row R.ReadSlice.own (given 0) R.Source (given 0) human a1 h.0 h.3 i),
          )
          ∷ ((codes "reef", (⟦<u8 as Serialize>⟧.data_of (h.4 i) human)) ∷ [])))
      | the_signal.Anchor ↦ λ w h. variant_alike
          (λ x. ⟦<Signal as Serialize>⟧.data_of x human) w the_signal.Anchor h (λ i. Some (unit_variant (codes "Anchor")))
      | the_signal.Depth a1 ↦ λ w h.
          variant_alike (λ x. ⟦<Signal as Serialize>⟧.data_of x human) w (the_signal.Depth h.0) h.1
          (λ i. newtype_variant_of (codes "Depth") (⟦<u16 as Serialize>⟧.data_of (h.2 i) human))
      | the_signal.Depths a1 ↦ λ w h. variant_alike
          (λ x. ⟦<Signal as Serialize>⟧.data_of x human) w (the_signal.Depths h.0) h.1
          (λ i. newtype_variant_of (codes "Depths") (array_alike ⟦<u16 as RoundTrip<'de, R>>⟧.same (λ x. ⟦<u16 as Serialize>⟧.data_of x human)
          (λ x14 yx14 h14 i. (⟦<u16 as Serialize>⟧.data_of (h14 i) human)) a1 h.0 h.2 i))
      | the_signal.Spotted a1 ↦ λ w h. variant_alike
          (λ x. ⟦<Signal as Serialize>⟧.data_of x human) w (the_signal.Spotted h.0) h.1
          (λ i. newtype_variant_of (codes "Spotted") (spot_rounds.alike-law R.row R.ReadSlice.own (given 0) R.Source (given 0) human a1 h.0 h.2 i))
      | the_signal.Crew a1 ↦ λ w h. variant_alike (λ x. ⟦<Signal as Serialize>⟧.data_of x human) w (the_signal.Crew h.0) h.1
          (λ i. newtype_variant_of (codes "Crew") (slice_alike ⟦<String as RoundTrip<'de, R>>⟧.same (λ x. ⟦<String as Serialize>⟧.data_of x human)
          (λ x15 yx15 h15 i. (text_alike (string_bytes x15) (string_bytes yx15) h15 i)) a1.items h.0.items h.2 i))
      | the_signal.Meet a1 a2 a3 ↦ λ w h.
          variant_alike (λ x. ⟦<Signal as Serialize>⟧.data_of x human) w (the_signal.Meet h.0 h.1 h.2) h.3
          (λ i. struct_variant_of (codes "Meet") ((
            codes "spot",
            (spot_rounds.alike-law R.row R.ReadSlice.own (given 0) R.Source (given 0) human a1 h.0 h.4 i),
          )
          ∷ ((codes "hour", (⟦<u8 as Serialize>⟧.data_of (h.5 i) human))
          ∷ ((
            codes "name",
            (option_alike ⟦<String as RoundTrip<'de, R>>⟧.same (λ x. ⟦<String as Serialize>⟧.data_of x human)
                (λ x16 yx16 h16 i. (text_alike (string_bytes x16) (string_bytes yx16) h16 i)) a3 h.2 h.6 i),
          ) ∷ []))))
      | the_signal.Distress ↦ λ w h. variant_alike
          (λ x. ⟦<Signal as Serialize>⟧.data_of x human) w the_signal.Distress h (λ i. Some (unit_variant (codes "Distress")))
      | the_signal.Heading a1 ↦
          λ w h. variant_alike (λ x. ⟦<Signal as Serialize>⟧.data_of x human) w (the_signal.Heading h.0) h.1
          (λ i. newtype_variant_of (codes "Heading") (⟦<i16 as Serialize>⟧.data_of (h.2 i) human))
      | the_signal.Weather a1 a2 ↦ λ w h. variant_alike
          (λ x. ⟦<Signal as Serialize>⟧.data_of x human) w (the_signal.Weather h.0 h.1) h.2
          (λ i. tuple_variant_of (codes "Weather") ((float64_alike a1.0 h.0.0 h.3 i) ∷ ((⟦<char as Serialize>⟧.data_of (h.4 i) human) ∷ [])))
      | the_signal.Cargo a1 ↦ λ w h. variant_alike (λ x. ⟦<Signal as Serialize>⟧.data_of x human) w (the_signal.Cargo h.0) h.1
          (λ i. newtype_variant_of (codes "Cargo") (mapping_alike ⟦<String as RoundTrip<'de, R>>⟧.same (λ x. ⟦<String as Serialize>⟧.data_of x human)
          (λ x17 yx17 h17 i. (text_alike (string_bytes x17) (string_bytes yx17) h17 i)) ⟦<u64 as RoundTrip<'de, R>>⟧.same
          (λ x. ⟦<u64 as Serialize>⟧.data_of x human) (λ x18 yx18 h18 i. (⟦<u64 as Serialize>⟧.data_of (h18 i) human)) a1.entries h.0.entries h.2 i))
      | the_signal.Ports a1 ↦ λ w h. variant_alike (λ x. ⟦<Signal as Serialize>⟧.data_of x human) w (the_signal.Ports h.0) h.1
          (λ i. newtype_variant_of (codes "Ports") (sequence_alike ⟦<u16 as RoundTrip<'de, R>>⟧.same (λ x. ⟦<u16 as Serialize>⟧.data_of x human)
          (λ x19 yx19 h19 i. (⟦<u16 as Serialize>⟧.data_of (h19 i) human)) a1.keys h.0.keys h.2 i))
      | the_signal.Chart a1 a2 a3 ↦ λ w h. variant_alike
          (λ x. ⟦<Signal as Serialize>⟧.data_of x human) w (the_signal.Chart h.0 h.1 h.2) h.3
          (λ i. struct_variant_of (codes "Chart") ((codes "name", (text_alike (string_bytes a1) (string_bytes h.0) h.4 i))
          ∷ ((codes "seal", (⟦<u128 as Serialize>⟧.data_of (h.5 i) human))
          ∷ ((codes "chart", (bytes_alike (buffer_bytes a3) (buffer_bytes h.2) h.6 i)) ∷ []))))
      | the_signal.Answer a1 ↦ λ w h. variant_alike
          (λ x. ⟦<Signal as Serialize>⟧.data_of x human) w (the_signal.Answer h.0) h.1
          (λ i. newtype_variant_of (codes "Answer") (⟦<bool as Serialize>⟧.data_of (h.2 i) human))
      | the_signal.Course a1 ↦ λ w h. variant_alike
          (λ x. ⟦<Signal as Serialize>⟧.data_of x human) w (the_signal.Course h.0) h.1
          (λ i. newtype_variant_of (codes "Course") (course_rounds.alike-law R.row R.ReadSlice.own (given 0) R.Source (given 0) human a1 h.0 h.2 i))
      | the_signal.Pair a1 ↦ λ w h. variant_alike (λ x. ⟦<Signal as Serialize>⟧.data_of x human) w (the_signal.Pair h.0) h.1
          (λ i. newtype_variant_of (codes "Pair") (tuple_of ((⟦<u8 as Serialize>⟧.data_of (h.2.0 i) human)
          ∷ ((text_alike (string_bytes a1.1) (string_bytes h.0.1) h.2.1 i) ∷ []))))
      | the_signal.Maybe a1 ↦ λ w h. variant_alike
          (λ x. ⟦<Signal as Serialize>⟧.data_of x human) w (the_signal.Maybe h.0) h.1
          (λ i. newtype_variant_of (codes "Maybe") (option_alike ⟦<u32 as RoundTrip<'de, R>>⟧.same (λ x. ⟦<u32 as Serialize>⟧.data_of x human)
          (λ x20 yx20 h20 i. (⟦<u32 as Serialize>⟧.data_of (h20 i) human)) a1 h.0 h.2 i))
      | the_signal.Pilot a1 ↦ λ w h. variant_alike
          (λ x. ⟦<Signal as Serialize>⟧.data_of x human) w (the_signal.Pilot h.0) h.1
          (λ i. struct_variant_of (codes "Pilot") ((codes "name", (text_alike (string_bytes a1) (string_bytes h.0) h.2 i)) ∷ []))
      | the_signal.Quarantine ↦
          λ w h. variant_alike (λ x. ⟦<Signal as Serialize>⟧.data_of x human) w the_signal.Quarantine h (λ i. Some (unit_variant (codes "Quarantine")))
      | the_signal.Tug a1 a2 a3 a4 ↦ λ w h. variant_alike (λ x. ⟦<Signal as Serialize>⟧.data_of x human) w (the_signal.Tug h.0 h.1 h.2 h.3) h.4
          (λ i. tuple_variant_of (codes "Tug") ((⟦<u8 as Serialize>⟧.data_of (h.5 i) human)
          ∷ ((⟦<u16 as Serialize>⟧.data_of (h.6 i) human) ∷ ((⟦<u32 as Serialize>⟧.data_of (h.7 i) human)
          ∷ ((⟦<u64 as Serialize>⟧.data_of (h.8 i) human) ∷ [])))))
      | the_signal.Debt a1 ↦ λ w h. variant_alike (λ x. ⟦<Signal as Serialize>⟧.data_of x human)
          w (the_signal.Debt h.0) h.1 (λ i. newtype_variant_of (codes "Debt") (⟦<i128 as Serialize>⟧.data_of (h.2 i) human))
      | the_signal.Nothing a1 ↦ λ w h.
          variant_alike (λ x. ⟦<Signal as Serialize>⟧.data_of x human) w (the_signal.Nothing h.0) h.1
          (λ i. newtype_variant_of (codes "Nothing") (unit_alike i))
      | the_signal.Lights a1 a2 a3 a4 ↦ λ w h. variant_alike
          (λ x. ⟦<Signal as Serialize>⟧.data_of x human) w (the_signal.Lights h.0 h.1 h.2 h.3) h.4
          (λ i. struct_variant_of (codes "Lights") ((codes "left", (⟦<u8 as Serialize>⟧.data_of (h.5 i) human))
          ∷ ((codes "right", (⟦<u8 as Serialize>⟧.data_of (h.6 i) human))
          ∷ ((
            codes "top",
            (array_alike ⟦<u8 as RoundTrip<'de, R>>⟧.same (λ x. ⟦<u8 as Serialize>⟧.data_of x human)
                (λ x21 yx21 h21 i. (⟦<u8 as Serialize>⟧.data_of (h21 i) human)) a3 h.2 h.7 i),
          )
          ∷ ((codes "lit", (⟦<bool as Serialize>⟧.data_of (h.8 i) human)) ∷ [])))))
      | the_signal.Flags a1 ↦ λ w h. variant_alike
          (λ x. ⟦<Signal as Serialize>⟧.data_of x human) w (the_signal.Flags h.0) h.1
          (λ i. newtype_variant_of (codes "Flags") (slice_alike ⟦<(u8, char) as RoundTrip<'de, R>>⟧.same (λ x. ⟦<(u8, char) as Serialize>⟧.data_of x human)
          (λ x22 yx22 h22 i. (tuple_of ((⟦<u8 as Serialize>⟧.data_of (h22.0 i) human) ∷ ((⟦<char as Serialize>⟧.data_of (h22.1 i) human) ∷ [])))) a1.items
          h.0.items h.2 i))
      | the_signal.Towed a1 a2 ↦ λ w h. variant_alike (λ x. ⟦<Signal as Serialize>⟧.data_of x human) w (the_signal.Towed h.0 h.1) h.2
          (λ i. struct_variant_of (codes "Towed") ((
            codes "by",
            (spot_rounds.alike-law R.row R.ReadSlice.own (given 0) R.Source (given 0) human a1.value h.0.value h.3 i),
          )
          ∷ ((codes "since", (⟦<i64 as Serialize>⟧.data_of (h.4 i) human)) ∷ [])))
      | the_signal.Fog a1 a2 ↦ λ w h. variant_alike
          (λ x. ⟦<Signal as Serialize>⟧.data_of x human) w (the_signal.Fog h.0 h.1) h.2
          (λ i. tuple_variant_of (codes "Fog") ((option_alike ⟦<(u16, u16) as RoundTrip<'de, R>>⟧.same (λ x. ⟦<(u16, u16) as Serialize>⟧.data_of x human)
          (λ x23 yx23 h23 i. (tuple_of ((⟦<u16 as Serialize>⟧.data_of (h23.0 i) human) ∷ ((⟦<u16 as Serialize>⟧.data_of (h23.1 i) human) ∷ [])))) a1 h.0 h.3
          i) ∷ ((⟦<bool as Serialize>⟧.data_of (h.4 i) human) ∷ [])))
      | the_signal.Farewell ↦ λ w h. variant_alike
          (λ x. ⟦<Signal as Serialize>⟧.data_of x human) w the_signal.Farewell h (λ i. Some (unit_variant (codes "Farewell")))
    ] };

    ghost only = { λ s. let names = codes "Silent" ∷ (codes "Call"
        ∷ (codes "At" ∷ (codes "Sail" ∷ (codes "Anchor" ∷ (codes "Depth"
        ∷ (codes "Depths" ∷ (codes "Spotted" ∷ (codes "Crew"
        ∷ (codes "Meet" ∷ (codes "Distress" ∷ (codes "Heading"
        ∷ (codes "Weather" ∷ (codes "Cargo" ∷ (codes "Ports"
        ∷ (codes "Chart" ∷ (codes "Answer" ∷ (codes "Course"
        ∷ (codes "Pair" ∷ (codes "Maybe" ∷ (codes "Pilot" ∷
        (codes "Quarantine" ∷ (codes "Tug" ∷ (codes "Debt"
        ∷ (codes "Nothing" ∷ (codes "Lights" ∷ (codes "Flags" ∷ (codes "Towed" ∷ (codes "Fog" ∷ (codes "Farewell" ∷ [])))))))))))))))))))))))))))))
        in elim [
          | the_signal.Silent ↦ λ fits. lowers_then s (Some (unit_variant (codes "Silent"))) (OfVariant names (AtPlace 0 AnyContent)) (λ m. (w : _)
              → (⟦<Signal as Deserialize<'de, R>>⟧.reads s.human R.lends) m w
              → (w ≡ the_signal.Silent)) (bare_row s names (codes "Silent") 0 refl (AtPlace 0 AnyContent) (refl, tt))
              (λ m q w r. variant_both names 0 AnyContent _ _ m q r (λ c a b. b.0))
          | the_signal.Call a1 ↦ λ fits. lowers_then s _ _ (λ m. (w : _)
              → (⟦<Signal as Deserialize<'de, R>>⟧.reads s.human R.lends) m w
              → (b1 : _) × (w ≡ the_signal.Call b1) × ⟦<String as RoundTrip<'de, R>>⟧.same a1 b1)
              (newtype_variant_row s names (codes "Call") 1 refl
              (AtPlace 1 (Content (λ j. Only (⟦<String as Deserialize<'de, R>>⟧.reads s.human R.lends) ⟦<String as RoundTrip<'de, R>>⟧.same j a1))) _
              (λ j. Only (⟦<String as Deserialize<'de, R>>⟧.reads s.human R.lends) ⟦<String as RoundTrip<'de, R>>⟧.same j a1) (λ m h. (refl, h))
              (string_only s (λ w. string_bytes w) (string_bytes a1)))
              (λ m q w r. variant_both names 1 _ _ _ m q r (λ c a b.
              (b.0, b.1, content_only (⟦<String as Deserialize<'de, R>>⟧.reads s.human R.lends) ⟦<String as RoundTrip<'de, R>>⟧.same a1 b.0 c a b.2)))
          | the_signal.At a1 a2 ↦ λ fits. lowers_then s _ _ (λ m. (w : _) → (⟦<Signal as Deserialize<'de, R>>⟧.reads s.human R.lends) m w
              → (b1 : _) × (b2 : _) × (w ≡ the_signal.At b1 b2) × ⟦<i32 as RoundTrip<'de, R>>⟧.same a1 b1 × ⟦<i32 as RoundTrip<'de, R>>⟧.same a2 b2)
              (tuple_variant_row s names (codes "At") 2 refl (AtPlace 2
              (Content (OfRow (AndThen (λ j. Only (⟦<i32 as Deserialize<'de, R>>⟧.reads s.human R.lends) ⟦<i32 as RoundTrip<'de, R>>⟧.same j a1)
              (AndThen (λ j. Only (⟦<i32 as Deserialize<'de, R>>⟧.reads s.human R.lends) ⟦<i32 as RoundTrip<'de, R>>⟧.same j a2) NoMore))))) _ _
              (λ m h. (refl, h)) (rows_cons s _ _ (λ j. Only (⟦<i32 as Deserialize<'de, R>>⟧.reads s.human R.lends) ⟦<i32 as RoundTrip<'de, R>>⟧.same j a1) _
              (signed_only s (negsuc 2147483647) (pos 2147483647) a1)
              (rows_cons s _ _ (λ j. Only (⟦<i32 as Deserialize<'de, R>>⟧.reads s.human R.lends) ⟦<i32 as RoundTrip<'de, R>>⟧.same j a2) _
              (signed_only s (negsuc 2147483647) (pos 2147483647) a2) (rows_none s))))
              (λ m q w r. variant_both names 2 _ _ _ m q r (λ c a b. content_row _ _ _ c a b.3
              (λ ks i j. let x = item_only (⟦<i32 as Deserialize<'de, R>>⟧.reads s.human R.lends) ⟦<i32 as RoundTrip<'de, R>>⟧.same a1 b.0 _ _ _
              (last_only (⟦<i32 as Deserialize<'de, R>>⟧.reads s.human R.lends) ⟦<i32 as RoundTrip<'de, R>>⟧.same a2 b.1) ks i j in (b.0, b.1, b.2, x.0, x.1))))
          | the_signal.Sail a1 a2 ↦ λ fits. lowers_then s _ _ (λ m. (w : _) → (⟦<Signal as Deserialize<'de, R>>⟧.reads s.human R.lends) m w
              → (b1 : _) × (b2 : _) × (w ≡ the_signal.Sail b1 b2) × ⟦<Course as RoundTrip<'de, R>>⟧.same a1 b1 × ⟦<u8 as RoundTrip<'de, R>>⟧.same a2 b2)
              (struct_variant_row s names (codes "Sail") 3 refl (AtPlace 3
              (Content (OfFields (codes "course" ∷ (codes "reef" ∷ []))
              (Field (λ j. Only (⟦<Course as Deserialize<'de, R>>⟧.reads s.human R.lends) ⟦<Course as RoundTrip<'de, R>>⟧.same j a1) ⊥
              (Field (λ j. Only (⟦<u8 as Deserialize<'de, R>>⟧.reads s.human R.lends) ⟦<u8 as RoundTrip<'de, R>>⟧.same j a2) ⊥ NoField)))))
              (codes "course" ∷ (codes "reef" ∷ [])) _ _ refl (λ m h. (refl, h))
              (fields_cons s (codes "course") _ _ _ (λ j. Only (⟦<Course as Deserialize<'de, R>>⟧.reads s.human R.lends) ⟦<Course as RoundTrip<'de, R>>⟧.same j
              a1) ⊥ _ (course_rounds.only-law R.row R.ReadSlice.own (given 0) R.Source (given 0) s a1 fits.0)
              (fields_cons s (codes "reef") _ _ _ (λ j. Only (⟦<u8 as Deserialize<'de, R>>⟧.reads s.human R.lends) ⟦<u8 as RoundTrip<'de, R>>⟧.same j a2) ⊥ _
              (byte_only s a2) (fields_none s)))) (λ m q w r. variant_both names 3 _ _ _ m q r
              (λ c a b. content_fields (codes "course" ∷ (codes "reef" ∷ [])) _ _ _ c a b.3
              (λ ks i j. let x = field_only (⟦<Course as Deserialize<'de, R>>⟧.reads s.human R.lends) ⟦<Course as RoundTrip<'de, R>>⟧.same a1 b.0 _ _ _ _
              (last_field (⟦<u8 as Deserialize<'de, R>>⟧.reads s.human R.lends) ⟦<u8 as RoundTrip<'de, R>>⟧.same a2 b.1 _) ks i j in (b.0, b.1, b.2, x.0, x.1))))
          | the_signal.Anchor ↦ λ fits. lowers_then s (Some (unit_variant (codes "Anchor"))) (OfVariant names (AtPlace 4 AnyContent)) (λ m. (w : _)
              → (⟦<Signal as Deserialize<'de, R>>⟧.reads s.human R.lends) m w
              → (w ≡ the_signal.Anchor)) (bare_row s names (codes "Anchor") 4 refl (AtPlace 4 AnyContent) (refl, tt))
              (λ m q w r. variant_both names 4 AnyContent _ _ m q r (λ c a b. b.0))
          | the_signal.Depth a1 ↦ λ fits. lowers_then s _ _ (λ m. (w : _)
              → (⟦<Signal as Deserialize<'de, R>>⟧.reads s.human R.lends) m w
              → (b1 : _) × (w ≡ the_signal.Depth b1) × ⟦<u16 as RoundTrip<'de, R>>⟧.same a1 b1)
              (newtype_variant_row s names (codes "Depth") 5 refl
              (AtPlace 5 (Content (λ j. Only (⟦<u16 as Deserialize<'de, R>>⟧.reads s.human R.lends) ⟦<u16 as RoundTrip<'de, R>>⟧.same j a1))) _
              (λ j. Only (⟦<u16 as Deserialize<'de, R>>⟧.reads s.human R.lends) ⟦<u16 as RoundTrip<'de, R>>⟧.same j a1) (λ m h. (refl, h))
              (unsigned_only s 65535 a1)) (λ m q w r. variant_both names 5 _ _ _ m q r
              (λ c a b. (b.0, b.1, content_only (⟦<u16 as Deserialize<'de, R>>⟧.reads s.human R.lends) ⟦<u16 as RoundTrip<'de, R>>⟧.same a1 b.0 c a b.2)))
          | the_signal.Depths a1 ↦ λ fits. lowers_then s _ _ (λ m. (w : _) → (⟦<Signal as Deserialize<'de, R>>⟧.reads s.human R.lends) m w
              → (b1 : _) × (w ≡ the_signal.Depths b1) × ⟦<[u16; 4] as RoundTrip<'de, R>>⟧.same a1 b1)
              (newtype_variant_row s names (codes "Depths") 6 refl
              (AtPlace 6 (Content (λ j. Only (⟦<[u16; 4] as Deserialize<'de, R>>⟧.reads s.human R.lends) ⟦<[u16; 4] as RoundTrip<'de, R>>⟧.same j a1))) _
              (λ j. Only (⟦<[u16; 4] as Deserialize<'de, R>>⟧.reads s.human R.lends) ⟦<[u16; 4] as RoundTrip<'de, R>>⟧.same j a1) (λ m h. (refl, h))
              (array_only s _ 4 (⟦<u16 as Deserialize<'de, R>>⟧.reads s.human R.lends) ⟦<u16 as RoundTrip<'de, R>>⟧.same a1
              (tuple_row s _ (λ ms. ReadsEach (Only (⟦<u16 as Deserialize<'de, R>>⟧.reads s.human R.lends) ⟦<u16 as RoundTrip<'de, R>>⟧.same) ms a1)
              (each_row s (λ x. ⟦<u16 as Serialize>⟧.data_of x s.human) ⟦<u16 as Serialize>⟧.is_value
              (Only (⟦<u16 as Deserialize<'de, R>>⟧.reads s.human R.lends) ⟦<u16 as RoundTrip<'de, R>>⟧.same) (λ x1 h1. (unsigned_only s 65535 x1)) a1 fits.1))))
              (λ m q w r. variant_both names 6 _ _ _ m q r (λ c a b.
              (b.0, b.1, content_only (⟦<[u16; 4] as Deserialize<'de, R>>⟧.reads s.human R.lends) ⟦<[u16; 4] as RoundTrip<'de, R>>⟧.same a1 b.0 c a b.2)))
          | the_signal.Spotted a1 ↦ λ fits. lowers_then s _ _ (λ m. (w : _) → (⟦<Signal as Deserialize<'de, R>>⟧.reads s.human R.lends) m w
              → (b1 : _) × (w ≡ the_signal.Spotted b1) × ⟦<Spot as RoundTrip<'de, R>>⟧.same a1 b1)
              (newtype_variant_row s names (codes "Spotted") 7 refl
              (AtPlace 7 (Content (λ j. Only (⟦<Spot as Deserialize<'de, R>>⟧.reads s.human R.lends) ⟦<Spot as RoundTrip<'de, R>>⟧.same j a1))) _
              (λ j. Only (⟦<Spot as Deserialize<'de, R>>⟧.reads s.human R.lends) ⟦<Spot as RoundTrip<'de, R>>⟧.same j a1) (λ m h. (refl, h))
              (spot_rounds.only-law R.row R.ReadSlice.own (given 0) R.Source (given 0) s a1 fits))
              (λ m q w r. variant_both names 7 _ _ _ m q r (λ c a b.
              (b.0, b.1, content_only (⟦<Spot as Deserialize<'de, R>>⟧.reads s.human R.lends) ⟦<Spot as RoundTrip<'de, R>>⟧.same a1 b.0 c a b.2)))
          | the_signal.Crew a1 ↦ λ fits. lowers_then s _ _ (λ m. (w : _) → (⟦<Signal as Deserialize<'de, R>>⟧.reads s.human R.lends) m w
              → (b1 : _) × (w ≡ the_signal.Crew b1) × ⟦<Vec<String> as RoundTrip<'de, R>>⟧.same a1 b1)
              (newtype_variant_row s names (codes "Crew") 8 refl
              (AtPlace 8 (Content (λ j. Only (⟦<Vec<String> as Deserialize<'de, R>>⟧.reads s.human R.lends) ⟦<Vec<String> as RoundTrip<'de, R>>⟧.same j a1))) _
              (λ j. Only (⟦<Vec<String> as Deserialize<'de, R>>⟧.reads s.human R.lends) ⟦<Vec<String> as RoundTrip<'de, R>>⟧.same j a1) (λ m h. (refl, h))
              (list_only s _ (λ w. w.items) (⟦<String as Deserialize<'de, R>>⟧.reads s.human R.lends) ⟦<String as RoundTrip<'de, R>>⟧.same a1.items
              (slice_row s _ (λ ms. ReadsEach (Only (⟦<String as Deserialize<'de, R>>⟧.reads s.human R.lends) ⟦<String as RoundTrip<'de, R>>⟧.same) ms a1.items)
              (each_row s (λ x. ⟦<String as Serialize>⟧.data_of x s.human) ⟦<String as Serialize>⟧.is_value
              (Only (⟦<String as Deserialize<'de, R>>⟧.reads s.human R.lends) ⟦<String as RoundTrip<'de, R>>⟧.same)
              (λ x2 h2. (string_only s (λ w. string_bytes w) (string_bytes x2))) a1.items fits))))
              (λ m q w r. variant_both names 8 _ _ _ m q r (λ c a b.
              (b.0, b.1, content_only (⟦<Vec<String> as Deserialize<'de, R>>⟧.reads s.human R.lends) ⟦<Vec<String> as RoundTrip<'de, R>>⟧.same a1 b.0 c a b.2)))
          | the_signal.Meet a1 a2 a3 ↦ λ fits. lowers_then s _ _ (λ m. (w : _) → (⟦<Signal as Deserialize<'de, R>>⟧.reads s.human R.lends) m w
              → (b1 : _) × (b2 : _) × (b3 : _) × (w ≡ the_signal.Meet b1 b2 b3) × ⟦<Spot as RoundTrip<'de, R>>⟧.same a1 b1
              × ⟦<u8 as RoundTrip<'de, R>>⟧.same a2 b2 × ⟦<Option<String> as RoundTrip<'de, R>>⟧.same a3 b3)
              (struct_variant_row s names (codes "Meet") 9 refl (AtPlace 9
              (Content (OfFields (codes "spot" ∷ (codes "hour" ∷ (codes "name" ∷ [])))
              (Field (λ j. Only (⟦<Spot as Deserialize<'de, R>>⟧.reads s.human R.lends) ⟦<Spot as RoundTrip<'de, R>>⟧.same j a1) ⊥
              (Field (λ j. Only (⟦<u8 as Deserialize<'de, R>>⟧.reads s.human R.lends) ⟦<u8 as RoundTrip<'de, R>>⟧.same j a2) ⊥
              (Field (λ j. Only (⟦<Option<String> as Deserialize<'de, R>>⟧.reads s.human R.lends) ⟦<Option<String> as RoundTrip<'de, R>>⟧.same j a3) ⊥
              NoField)))))) (codes "spot" ∷ (codes "hour" ∷ (codes "name" ∷ []))) _ _ refl (λ m h. (refl, h))
              (fields_cons s (codes "spot") _ _ _ (λ j. Only (⟦<Spot as Deserialize<'de, R>>⟧.reads s.human R.lends) ⟦<Spot as RoundTrip<'de, R>>⟧.same j a1) ⊥ _
              (spot_rounds.only-law R.row R.ReadSlice.own (given 0) R.Source (given 0) s a1 fits.0)
              (fields_cons s (codes "hour") _ _ _ (λ j. Only (⟦<u8 as Deserialize<'de, R>>⟧.reads s.human R.lends) ⟦<u8 as RoundTrip<'de, R>>⟧.same j a2) ⊥ _
              (byte_only s a2) (fields_cons s (codes "name") _ _ _
              (λ j. Only (⟦<Option<String> as Deserialize<'de, R>>⟧.reads s.human R.lends) ⟦<Option<String> as RoundTrip<'de, R>>⟧.same j a3) ⊥ _
              (option_only s _ (⟦<String as Deserialize<'de, R>>⟧.reads s.human R.lends) ⟦<String as RoundTrip<'de, R>>⟧.same a3
              (option_row s (λ x. ⟦<String as Serialize>⟧.data_of x s.human) ⟦<String as Serialize>⟧.is_value
              (Only (⟦<String as Deserialize<'de, R>>⟧.reads s.human R.lends) ⟦<String as RoundTrip<'de, R>>⟧.same) (λ x4. text_other s (string_bytes x4))
              (λ x3 h3. (string_only s (λ w. string_bytes w) (string_bytes x3))) a3 fits.2)) (fields_none s)))))
              (λ m q w r. variant_both names 9 _ _ _ m q r (λ c a b. content_fields (codes "spot" ∷ (codes "hour" ∷ (codes "name" ∷ []))) _ _ _ c a b.4
              (λ ks i j. let x = field_only (⟦<Spot as Deserialize<'de, R>>⟧.reads s.human R.lends) ⟦<Spot as RoundTrip<'de, R>>⟧.same a1 b.0 _ _ _ _
              (field_only (⟦<u8 as Deserialize<'de, R>>⟧.reads s.human R.lends) ⟦<u8 as RoundTrip<'de, R>>⟧.same a2 b.1 _ _ _ _
              (last_field (⟦<Option<String> as Deserialize<'de, R>>⟧.reads s.human R.lends) ⟦<Option<String> as RoundTrip<'de, R>>⟧.same a3 b.2 _)) ks i j
              in (b.0, b.1, b.2, b.3, x.0, x.1.0, x.1.1))))
          | the_signal.Distress ↦ λ fits. lowers_then s (Some (unit_variant (codes "Distress")))
              (OfVariant names (AtPlace 10 AnyContent)) (λ m. (w : _) → (⟦<Signal as Deserialize<'de, R>>⟧.reads s.human R.lends) m w
              → (w ≡ the_signal.Distress)) (bare_row s names (codes "Distress") 10 refl (AtPlace 10 AnyContent) (refl, tt))
              (λ m q w r. variant_both names 10 AnyContent _ _ m q r (λ c a b. b.0))
          | the_signal.Heading a1 ↦ λ fits. lowers_then s _ _ (λ m. (w : _)
              → (⟦<Signal as Deserialize<'de, R>>⟧.reads s.human R.lends) m w
              → (b1 : _) × (w ≡ the_signal.Heading b1) × ⟦<i16 as RoundTrip<'de, R>>⟧.same a1 b1)
              (newtype_variant_row s names (codes "Heading") 11 refl
              (AtPlace 11 (Content (λ j. Only (⟦<i16 as Deserialize<'de, R>>⟧.reads s.human R.lends) ⟦<i16 as RoundTrip<'de, R>>⟧.same j a1))) _
              (λ j. Only (⟦<i16 as Deserialize<'de, R>>⟧.reads s.human R.lends) ⟦<i16 as RoundTrip<'de, R>>⟧.same j a1) (λ m h. (refl, h))
              (signed_only s (negsuc 32767) (pos 32767) a1)) (λ m q w r. variant_both names 11 _ _ _ m q r
              (λ c a b. (b.0, b.1, content_only (⟦<i16 as Deserialize<'de, R>>⟧.reads s.human R.lends) ⟦<i16 as RoundTrip<'de, R>>⟧.same a1 b.0 c a b.2)))
          | the_signal.Weather a1 a2 ↦ λ fits. lowers_then s _ _ (λ m. (w : _) → (⟦<Signal as Deserialize<'de, R>>⟧.reads s.human R.lends) m w
              → (b1 : _) × (b2 : _) × (w ≡ the_signal.Weather b1 b2) × ⟦<F64Bits as RoundTrip<'de, R>>⟧.same a1 b1 × ⟦<char as RoundTrip<'de, R>>⟧.same a2 b2)
              (tuple_variant_row s names (codes "Weather") 12 refl
              (AtPlace 12 (Content (OfRow (AndThen (λ j. Only (⟦<F64Bits as Deserialize<'de, R>>⟧.reads s.human R.lends) ⟦<F64Bits as RoundTrip<'de, R>>⟧.same j
              a1) (AndThen (λ j. Only (⟦<char as Deserialize<'de, R>>⟧.reads s.human R.lends) ⟦<char as RoundTrip<'de, R>>⟧.same j a2) NoMore))))) _ _
              (λ m h. (refl, h)) (rows_cons s _ _ (λ j. Only (⟦<F64Bits as Deserialize<'de, R>>⟧.reads s.human R.lends) ⟦<F64Bits as RoundTrip<'de, R>>⟧.same j
              a1) _ (float64_only s (λ w. w.0) a1.0) (rows_cons s _ _
              (λ j. Only (⟦<char as Deserialize<'de, R>>⟧.reads s.human R.lends) ⟦<char as RoundTrip<'de, R>>⟧.same j a2) _ (char_only s a2 fits.1)
              (rows_none s)))) (λ m q w r. variant_both names 12 _ _ _ m q r
              (λ c a b. content_row _ _ _ c a b.3 (λ ks i j. let x = item_only (⟦<F64Bits as Deserialize<'de, R>>⟧.reads s.human R.lends)
              ⟦<F64Bits as RoundTrip<'de, R>>⟧.same a1 b.0 _ _ _
              (last_only (⟦<char as Deserialize<'de, R>>⟧.reads s.human R.lends) ⟦<char as RoundTrip<'de, R>>⟧.same a2 b.1) ks i j in (b.0, b.1, b.2, x.0, x.1))))
          | the_signal.Cargo a1 ↦ λ fits. lowers_then s _ _ (λ m. (w : _) → (⟦<Signal as Deserialize<'de, R>>⟧.reads s.human R.lends) m w
              → (b1 : _) × (w ≡ the_signal.Cargo b1) × ⟦<BTreeMap<String, u64> as RoundTrip<'de, R>>⟧.same a1 b1)
              (newtype_variant_row s names (codes "Cargo") 13 refl
              (AtPlace 13 (Content (λ j. Only (⟦<BTreeMap<String, u64> as Deserialize<'de, R>>⟧.reads s.human R.lends)
              ⟦<BTreeMap<String, u64> as RoundTrip<'de, R>>⟧.same j a1))) _
              (λ j. Only (⟦<BTreeMap<String, u64> as Deserialize<'de, R>>⟧.reads s.human R.lends) ⟦<BTreeMap<String, u64> as RoundTrip<'de, R>>⟧.same j a1)
              (λ m h. (refl, h)) (entries_only (⟦<String as Deserialize<'de, R>>⟧.reads s.human R.lends) (⟦<u64 as Deserialize<'de, R>>⟧.reads s.human R.lends)
              ⟦<String as RoundTrip<'de, R>>⟧.same ⟦<u64 as RoundTrip<'de, R>>⟧.same s _ (λ w. w.entries) {cmp = ⟦<String as Ord>⟧.cmp}
              (on_total (λ x. string_bytes x) nat_list_cmp_total) (λ x y e. tied (slice_cmp nat_cmp) nat_list_cmp_total (string_bytes x) (string_bytes y) e)
              a1.entries fits.1 (pairs_row s (λ x. ⟦<String as Serialize>⟧.data_of x s.human) (λ x. ⟦<u64 as Serialize>⟧.data_of x s.human)
              ⟦<String as Serialize>⟧.is_value ⟦<u64 as Serialize>⟧.is_value
              (Only (⟦<String as Deserialize<'de, R>>⟧.reads s.human R.lends) ⟦<String as RoundTrip<'de, R>>⟧.same)
              (Only (⟦<u64 as Deserialize<'de, R>>⟧.reads s.human R.lends) ⟦<u64 as RoundTrip<'de, R>>⟧.same)
              (λ x5 h5. (string_only s (λ w. string_bytes w) (string_bytes x5))) (λ x6 h6. (unsigned_only s 18446744073709551615 x6)) a1.entries fits.0)))
              (λ m q w r. variant_both names 13 _ _ _ m q r (λ c a b. (
                b.0,
                b.1,
                content_only (⟦<BTreeMap<String, u64> as Deserialize<'de, R>>⟧.reads s.human R.lends) ⟦<BTreeMap<String, u64> as RoundTrip<'de, R>>⟧.same
                    a1 b.0 c a b.2,
              )))
          | the_signal.Ports a1 ↦ λ fits. lowers_then s _ _ (λ m. (w : _) → (⟦<Signal as Deserialize<'de, R>>⟧.reads s.human R.lends) m w
              → (b1 : _) × (w ≡ the_signal.Ports b1) × ⟦<BTreeSet<u16> as RoundTrip<'de, R>>⟧.same a1 b1)
              (newtype_variant_row s names (codes "Ports") 14 refl
              (AtPlace 14 (Content (λ j. Only (⟦<BTreeSet<u16> as Deserialize<'de, R>>⟧.reads s.human R.lends) ⟦<BTreeSet<u16> as RoundTrip<'de, R>>⟧.same j a1)))
              _ (λ j. Only (⟦<BTreeSet<u16> as Deserialize<'de, R>>⟧.reads s.human R.lends) ⟦<BTreeSet<u16> as RoundTrip<'de, R>>⟧.same j a1) (λ m h. (refl, h))
              (set_only s _ (λ w. w.keys) {cmp = ⟦<u16 as Ord>⟧.cmp} (Prim.search (comparing, rules)) (⟦<u16 as Deserialize<'de, R>>⟧.reads s.human R.lends)
              ⟦<u16 as RoundTrip<'de, R>>⟧.same (λ x y e. tied ⟦<u16 as Ord>⟧.cmp (Prim.search (comparing, rules)) x y e) a1.keys fits.1
              (sequence_row s _ (λ ms. ReadsEach (Only (⟦<u16 as Deserialize<'de, R>>⟧.reads s.human R.lends) ⟦<u16 as RoundTrip<'de, R>>⟧.same) ms a1.keys)
              (each_row s (λ x. ⟦<u16 as Serialize>⟧.data_of x s.human) ⟦<u16 as Serialize>⟧.is_value
              (Only (⟦<u16 as Deserialize<'de, R>>⟧.reads s.human R.lends) ⟦<u16 as RoundTrip<'de, R>>⟧.same) (λ x7 h7. (unsigned_only s 65535 x7)) a1.keys
              fits.0)))) (λ m q w r. variant_both names 14 _ _ _ m q r
              (λ c a b. (
                b.0,
                b.1,
                content_only (⟦<BTreeSet<u16> as Deserialize<'de, R>>⟧.reads s.human R.lends) ⟦<BTreeSet<u16> as RoundTrip<'de, R>>⟧.same a1
                    b.0 c a b.2,
              )))
          | the_signal.Chart a1 a2 a3 ↦ λ fits. lowers_then s _ _ (λ m. (w : _) → (⟦<Signal as Deserialize<'de, R>>⟧.reads s.human R.lends) m w
              → (b1 : _) × (b2 : _) × (b3 : _) × (w ≡ the_signal.Chart b1 b2 b3) × ⟦<String as RoundTrip<'de, R>>⟧.same a1 b1
              × ⟦<u128 as RoundTrip<'de, R>>⟧.same a2 b2 × ⟦<ByteBuf as RoundTrip<'de, R>>⟧.same a3 b3)
              (struct_variant_row s names (codes "Chart") 15 refl
              (AtPlace 15 (Content (OfFields (codes "name" ∷ (codes "seal" ∷ (codes "chart" ∷ [])))
              (Field (λ j. Only (⟦<String as Deserialize<'de, R>>⟧.reads s.human R.lends) ⟦<String as RoundTrip<'de, R>>⟧.same j a1) ⊥
              (Field (λ j. Only (⟦<u128 as Deserialize<'de, R>>⟧.reads s.human R.lends) ⟦<u128 as RoundTrip<'de, R>>⟧.same j a2) ⊥
              (Field (λ j. Only (⟦<ByteBuf as Deserialize<'de, R>>⟧.reads s.human R.lends) ⟦<ByteBuf as RoundTrip<'de, R>>⟧.same j a3) ⊥ NoField))))))
              (codes "name" ∷ (codes "seal" ∷ (codes "chart" ∷ []))) _ _ refl (λ m h. (refl, h))
              (fields_cons s (codes "name") _ _ _ (λ j. Only (⟦<String as Deserialize<'de, R>>⟧.reads s.human R.lends) ⟦<String as RoundTrip<'de, R>>⟧.same j a1)
              ⊥ _ (string_only s (λ w. string_bytes w) (string_bytes a1))
              (fields_cons s (codes "seal") _ _ _ (λ j. Only (⟦<u128 as Deserialize<'de, R>>⟧.reads s.human R.lends) ⟦<u128 as RoundTrip<'de, R>>⟧.same j a2) ⊥ _
              (unsigned128_only s a2 fits.1) (fields_cons s (codes "chart") _ _ _
              (λ j. Only (⟦<ByteBuf as Deserialize<'de, R>>⟧.reads s.human R.lends) ⟦<ByteBuf as RoundTrip<'de, R>>⟧.same j a3) ⊥ _
              (buffer_only s (λ w. buffer_bytes w) (buffer_bytes a3)) (fields_none s)))))
              (λ m q w r. variant_both names 15 _ _ _ m q r (λ c a b. content_fields (codes "name" ∷ (codes "seal" ∷ (codes "chart" ∷ []))) _ _ _ c a b.4
              (λ ks i j. let x = field_only (⟦<String as Deserialize<'de, R>>⟧.reads s.human R.lends) ⟦<String as RoundTrip<'de, R>>⟧.same a1 b.0 _ _ _ _
              (field_only (⟦<u128 as Deserialize<'de, R>>⟧.reads s.human R.lends) ⟦<u128 as RoundTrip<'de, R>>⟧.same a2 b.1 _ _ _ _
              (last_field (⟦<ByteBuf as Deserialize<'de, R>>⟧.reads s.human R.lends) ⟦<ByteBuf as RoundTrip<'de, R>>⟧.same a3 b.2 _)) ks i j
              in (b.0, b.1, b.2, b.3, x.0, x.1.0, x.1.1))))
          | the_signal.Answer a1 ↦ λ fits. lowers_then s _ _ (λ m. (w : _)
              → (⟦<Signal as Deserialize<'de, R>>⟧.reads s.human R.lends) m w
              → (b1 : _) × (w ≡ the_signal.Answer b1) × ⟦<bool as RoundTrip<'de, R>>⟧.same a1 b1)
              (newtype_variant_row s names (codes "Answer") 16 refl
              (AtPlace 16 (Content (λ j. Only (⟦<bool as Deserialize<'de, R>>⟧.reads s.human R.lends) ⟦<bool as RoundTrip<'de, R>>⟧.same j a1))) _
              (λ j. Only (⟦<bool as Deserialize<'de, R>>⟧.reads s.human R.lends) ⟦<bool as RoundTrip<'de, R>>⟧.same j a1) (λ m h. (refl, h)) (truth_only s a1))
              (λ m q w r. variant_both names 16 _ _ _ m q r (λ c a b.
              (b.0, b.1, content_only (⟦<bool as Deserialize<'de, R>>⟧.reads s.human R.lends) ⟦<bool as RoundTrip<'de, R>>⟧.same a1 b.0 c a b.2)))
          | the_signal.Course a1 ↦ λ fits. lowers_then s _ _ (λ m. (w : _) → (⟦<Signal as Deserialize<'de, R>>⟧.reads s.human R.lends) m w
              → (b1 : _) × (w ≡ the_signal.Course b1) × ⟦<Course as RoundTrip<'de, R>>⟧.same a1 b1)
              (newtype_variant_row s names (codes "Course") 17 refl
              (AtPlace 17 (Content (λ j. Only (⟦<Course as Deserialize<'de, R>>⟧.reads s.human R.lends) ⟦<Course as RoundTrip<'de, R>>⟧.same j a1))) _
              (λ j. Only (⟦<Course as Deserialize<'de, R>>⟧.reads s.human R.lends) ⟦<Course as RoundTrip<'de, R>>⟧.same j a1) (λ m h. (refl, h))
              (course_rounds.only-law R.row R.ReadSlice.own (given 0) R.Source (given 0) s a1 fits))
              (λ m q w r. variant_both names 17 _ _ _ m q r (λ c a b.
              (b.0, b.1, content_only (⟦<Course as Deserialize<'de, R>>⟧.reads s.human R.lends) ⟦<Course as RoundTrip<'de, R>>⟧.same a1 b.0 c a b.2)))
          | the_signal.Pair a1 ↦ λ fits. lowers_then s _ _ (λ m. (w : _) → (⟦<Signal as Deserialize<'de, R>>⟧.reads s.human R.lends) m w
              → (b1 : _) × (w ≡ the_signal.Pair b1) × ⟦<(u8, String) as RoundTrip<'de, R>>⟧.same a1 b1)
              (newtype_variant_row s names (codes "Pair") 18 refl
              (AtPlace 18 (Content (λ j. Only (⟦<(u8, String) as Deserialize<'de, R>>⟧.reads s.human R.lends) ⟦<(u8, String) as RoundTrip<'de, R>>⟧.same j a1))) _
              (λ j. Only (⟦<(u8, String) as Deserialize<'de, R>>⟧.reads s.human R.lends) ⟦<(u8, String) as RoundTrip<'de, R>>⟧.same j a1) (λ m h. (refl, h))
              (lowers_then s _ _ (λ j. Only (⟦<(u8, String) as Deserialize<'de, R>>⟧.reads s.human R.lends) ⟦<(u8, String) as RoundTrip<'de, R>>⟧.same j a1)
              (tuple_row s _ _ (rows_cons s _ _ (λ j. Only (⟦<u8 as Deserialize<'de, R>>⟧.reads s.human R.lends) ⟦<u8 as RoundTrip<'de, R>>⟧.same j a1.0) _
              (byte_only s a1.0) (rows_cons s _ _ (λ j. Only (⟦<String as Deserialize<'de, R>>⟧.reads s.human R.lends) ⟦<String as RoundTrip<'de, R>>⟧.same j
              a1.1) _ (string_only s (λ w. string_bytes w) (string_bytes a1.1)) (rows_none s))))
              (λ m q w r. row_both _ _ _ m q r (item_only (⟦<u8 as Deserialize<'de, R>>⟧.reads s.human R.lends) ⟦<u8 as RoundTrip<'de, R>>⟧.same a1.0 w.0 _ _ _
              (last_only (⟦<String as Deserialize<'de, R>>⟧.reads s.human R.lends) ⟦<String as RoundTrip<'de, R>>⟧.same a1.1 w.1)))))
              (λ m q w r. variant_both names 18 _ _ _ m q r (λ c a b.
              (b.0, b.1, content_only (⟦<(u8, String) as Deserialize<'de, R>>⟧.reads s.human R.lends) ⟦<(u8, String) as RoundTrip<'de, R>>⟧.same a1 b.0 c a b.2)))
          | the_signal.Maybe a1 ↦ λ fits. lowers_then s _ _ (λ m. (w : _) → (⟦<Signal as Deserialize<'de, R>>⟧.reads s.human R.lends) m w
              → (b1 : _) × (w ≡ the_signal.Maybe b1) × ⟦<Option<u32> as RoundTrip<'de, R>>⟧.same a1 b1)
              (newtype_variant_row s names (codes "Maybe") 19 refl
              (AtPlace 19 (Content (λ j. Only (⟦<Option<u32> as Deserialize<'de, R>>⟧.reads s.human R.lends) ⟦<Option<u32> as RoundTrip<'de, R>>⟧.same j a1))) _
              (λ j. Only (⟦<Option<u32> as Deserialize<'de, R>>⟧.reads s.human R.lends) ⟦<Option<u32> as RoundTrip<'de, R>>⟧.same j a1) (λ m h. (refl, h))
              (option_only s _ (⟦<u32 as Deserialize<'de, R>>⟧.reads s.human R.lends) ⟦<u32 as RoundTrip<'de, R>>⟧.same a1
              (option_row s (λ x. ⟦<u32 as Serialize>⟧.data_of x s.human) ⟦<u32 as Serialize>⟧.is_value
              (Only (⟦<u32 as Deserialize<'de, R>>⟧.reads s.human R.lends) ⟦<u32 as RoundTrip<'de, R>>⟧.same) (λ x9. pos_other s x9)
              (λ x8 h8. (unsigned_only s 4294967295 x8)) a1 fits)))
              (λ m q w r. variant_both names 19 _ _ _ m q r (λ c a b.
              (b.0, b.1, content_only (⟦<Option<u32> as Deserialize<'de, R>>⟧.reads s.human R.lends) ⟦<Option<u32> as RoundTrip<'de, R>>⟧.same a1 b.0 c a b.2)))
          | the_signal.Pilot a1 ↦ λ fits. lowers_then s _ _ (λ m. (w : _) → (⟦<Signal as Deserialize<'de, R>>⟧.reads s.human R.lends) m w
              → (b1 : _) × (w ≡ the_signal.Pilot b1) × ⟦<String as RoundTrip<'de, R>>⟧.same a1 b1)
              (struct_variant_row s names (codes "Pilot") 20 refl
              (AtPlace 20 (Content (OfFields (codes "name" ∷ [])
              (Field (λ j. Only (⟦<String as Deserialize<'de, R>>⟧.reads s.human R.lends) ⟦<String as RoundTrip<'de, R>>⟧.same j a1) ⊥ NoField))))
              (codes "name" ∷ []) _ _ refl (λ m h. (refl, h)) (fields_cons s (codes "name") _ _ _
              (λ j. Only (⟦<String as Deserialize<'de, R>>⟧.reads s.human R.lends) ⟦<String as RoundTrip<'de, R>>⟧.same j a1) ⊥ _
              (string_only s (λ w. string_bytes w) (string_bytes a1)) (fields_none s)))
              (λ m q w r. variant_both names 20 _ _ _ m q r (λ c a b. content_fields (codes "name" ∷ []) _ _ _ c a b.2
              (λ ks i j. let x = last_field (⟦<String as Deserialize<'de, R>>⟧.reads s.human R.lends) ⟦<String as RoundTrip<'de, R>>⟧.same a1 b.0 _ ks i j
              in (b.0, b.1, x))))
          | the_signal.Quarantine ↦ λ fits. lowers_then s (Some (unit_variant (codes "Quarantine")))
              (OfVariant names (AtPlace 21 AnyContent)) (λ m. (w : _) → (⟦<Signal as Deserialize<'de, R>>⟧.reads s.human R.lends) m w
              → (w ≡ the_signal.Quarantine)) (bare_row s names (codes "Quarantine") 21 refl (AtPlace 21 AnyContent) (refl, tt))
              (λ m q w r. variant_both names 21 AnyContent _ _ m q r (λ c a b. b.0))
          | the_signal.Tug a1 a2 a3 a4 ↦ λ fits. lowers_then s _ _ (λ m. (w : _)
              → (⟦<Signal as Deserialize<'de, R>>⟧.reads s.human R.lends) m w
              → (b1 : _) × (b2 : _) × (b3 : _) × (b4 : _) × (w ≡ the_signal.Tug b1 b2 b3 b4) × ⟦<u8 as RoundTrip<'de, R>>⟧.same a1 b1
              × ⟦<u16 as RoundTrip<'de, R>>⟧.same a2 b2 × ⟦<u32 as RoundTrip<'de, R>>⟧.same a3 b3 × ⟦<u64 as RoundTrip<'de, R>>⟧.same a4 b4)
              (tuple_variant_row s names (codes "Tug") 22 refl (AtPlace 22
              (Content (OfRow (AndThen (λ j. Only (⟦<u8 as Deserialize<'de, R>>⟧.reads s.human R.lends) ⟦<u8 as RoundTrip<'de, R>>⟧.same j a1)
              (AndThen (λ j. Only (⟦<u16 as Deserialize<'de, R>>⟧.reads s.human R.lends) ⟦<u16 as RoundTrip<'de, R>>⟧.same j a2)
              (AndThen (λ j. Only (⟦<u32 as Deserialize<'de, R>>⟧.reads s.human R.lends) ⟦<u32 as RoundTrip<'de, R>>⟧.same j a3)
              (AndThen (λ j. Only (⟦<u64 as Deserialize<'de, R>>⟧.reads s.human R.lends) ⟦<u64 as RoundTrip<'de, R>>⟧.same j a4) NoMore))))))) _ _
              (λ m h. (refl, h)) (rows_cons s _ _ (λ j. Only (⟦<u8 as Deserialize<'de, R>>⟧.reads s.human R.lends) ⟦<u8 as RoundTrip<'de, R>>⟧.same j a1) _
              (byte_only s a1) (rows_cons s _ _ (λ j. Only (⟦<u16 as Deserialize<'de, R>>⟧.reads s.human R.lends) ⟦<u16 as RoundTrip<'de, R>>⟧.same j a2) _
              (unsigned_only s 65535 a2) (rows_cons s _ _ (λ j. Only (⟦<u32 as Deserialize<'de, R>>⟧.reads s.human R.lends) ⟦<u32 as RoundTrip<'de, R>>⟧.same j
              a3) _ (unsigned_only s 4294967295 a3) (rows_cons s _ _
              (λ j. Only (⟦<u64 as Deserialize<'de, R>>⟧.reads s.human R.lends) ⟦<u64 as RoundTrip<'de, R>>⟧.same j a4) _
              (unsigned_only s 18446744073709551615 a4) (rows_none s))))))
              (λ m q w r. variant_both names 22 _ _ _ m q r (λ c a b. content_row _ _ _ c a b.5
              (λ ks i j. let x = item_only (⟦<u8 as Deserialize<'de, R>>⟧.reads s.human R.lends) ⟦<u8 as RoundTrip<'de, R>>⟧.same a1 b.0 _ _ _
              (item_only (⟦<u16 as Deserialize<'de, R>>⟧.reads s.human R.lends) ⟦<u16 as RoundTrip<'de, R>>⟧.same a2 b.1 _ _ _
              (item_only (⟦<u32 as Deserialize<'de, R>>⟧.reads s.human R.lends) ⟦<u32 as RoundTrip<'de, R>>⟧.same a3 b.2 _ _ _
              (last_only (⟦<u64 as Deserialize<'de, R>>⟧.reads s.human R.lends) ⟦<u64 as RoundTrip<'de, R>>⟧.same a4 b.3))) ks i j
              in (b.0, b.1, b.2, b.3, b.4, x.0, x.1.0, x.1.1.0, x.1.1.1))))
          | the_signal.Debt a1 ↦ λ fits. lowers_then s _ _ (λ m. (w : _)
              → (⟦<Signal as Deserialize<'de, R>>⟧.reads s.human R.lends) m w
              → (b1 : _) × (w ≡ the_signal.Debt b1) × ⟦<i128 as RoundTrip<'de, R>>⟧.same a1 b1)
              (newtype_variant_row s names (codes "Debt") 23 refl
              (AtPlace 23 (Content (λ j. Only (⟦<i128 as Deserialize<'de, R>>⟧.reads s.human R.lends) ⟦<i128 as RoundTrip<'de, R>>⟧.same j a1))) _
              (λ j. Only (⟦<i128 as Deserialize<'de, R>>⟧.reads s.human R.lends) ⟦<i128 as RoundTrip<'de, R>>⟧.same j a1) (λ m h. (refl, h))
              (signed128_only s a1 fits)) (λ m q w r. variant_both names 23 _ _ _ m q r
              (λ c a b. (b.0, b.1, content_only (⟦<i128 as Deserialize<'de, R>>⟧.reads s.human R.lends) ⟦<i128 as RoundTrip<'de, R>>⟧.same a1 b.0 c a b.2)))
          | the_signal.Nothing a1 ↦ λ fits. lowers_then s _ _ (λ m. (w : _) → (⟦<Signal as Deserialize<'de, R>>⟧.reads s.human R.lends) m w
              → (b1 : _) × (w ≡ the_signal.Nothing b1) × ⟦<() as RoundTrip<'de, R>>⟧.same a1 b1)
              (newtype_variant_row s names (codes "Nothing") 24 refl
              (AtPlace 24 (Content (λ j. Only (⟦<() as Deserialize<'de, R>>⟧.reads s.human R.lends) ⟦<() as RoundTrip<'de, R>>⟧.same j a1))) _
              (λ j. Only (⟦<() as Deserialize<'de, R>>⟧.reads s.human R.lends) ⟦<() as RoundTrip<'de, R>>⟧.same j a1) (λ m h. (refl, h)) (unit_only s))
              (λ m q w r. variant_both names 24 _ _ _ m q r (λ c a b.
              (b.0, b.1, content_only (⟦<() as Deserialize<'de, R>>⟧.reads s.human R.lends) ⟦<() as RoundTrip<'de, R>>⟧.same a1 b.0 c a b.2)))
          | the_signal.Lights
              a1 a2 a3 a4 ↦ λ fits. lowers_then s _ _ (λ m. (w : _) → (⟦<Signal as Deserialize<'de, R>>⟧.reads s.human R.lends) m w
              → (b1 : _) × (b2 : _) × (b3 : _) × (b4 : _) × (w ≡ the_signal.Lights b1 b2 b3 b4) × ⟦<u8 as RoundTrip<'de, R>>⟧.same a1 b1
              × ⟦<u8 as RoundTrip<'de, R>>⟧.same a2 b2 × ⟦<[u8; 2] as RoundTrip<'de, R>>⟧.same a3 b3 × ⟦<bool as RoundTrip<'de, R>>⟧.same a4 b4)
              (struct_variant_row s names (codes "Lights") 25 refl
              (AtPlace 25 (Content (OfFields (codes "left" ∷ (codes "right" ∷ (codes "top" ∷ (codes "lit" ∷ []))))
              (Field (λ j. Only (⟦<u8 as Deserialize<'de, R>>⟧.reads s.human R.lends) ⟦<u8 as RoundTrip<'de, R>>⟧.same j a1) ⊥
              (Field (λ j. Only (⟦<u8 as Deserialize<'de, R>>⟧.reads s.human R.lends) ⟦<u8 as RoundTrip<'de, R>>⟧.same j a2) ⊥
              (Field (λ j. Only (⟦<[u8; 2] as Deserialize<'de, R>>⟧.reads s.human R.lends) ⟦<[u8; 2] as RoundTrip<'de, R>>⟧.same j a3) ⊥
              (Field (λ j. Only (⟦<bool as Deserialize<'de, R>>⟧.reads s.human R.lends) ⟦<bool as RoundTrip<'de, R>>⟧.same j a4) ⊥ NoField)))))))
              (codes "left" ∷ (codes "right" ∷ (codes "top" ∷ (codes "lit" ∷ [])))) _ _ refl (λ m h. (refl, h))
              (fields_cons s (codes "left") _ _ _ (λ j. Only (⟦<u8 as Deserialize<'de, R>>⟧.reads s.human R.lends) ⟦<u8 as RoundTrip<'de, R>>⟧.same j a1) ⊥ _
              (byte_only s a1) (fields_cons s (codes "right") _ _ _
              (λ j. Only (⟦<u8 as Deserialize<'de, R>>⟧.reads s.human R.lends) ⟦<u8 as RoundTrip<'de, R>>⟧.same j a2) ⊥ _ (byte_only s a2)
              (fields_cons s (codes "top") _ _ _ (λ j. Only (⟦<[u8; 2] as Deserialize<'de, R>>⟧.reads s.human R.lends) ⟦<[u8; 2] as RoundTrip<'de, R>>⟧.same j a3)
              ⊥ _ (array_only s _ 2 (⟦<u8 as Deserialize<'de, R>>⟧.reads s.human R.lends) ⟦<u8 as RoundTrip<'de, R>>⟧.same a3
              (tuple_row s _ (λ ms. ReadsEach (Only (⟦<u8 as Deserialize<'de, R>>⟧.reads s.human R.lends) ⟦<u8 as RoundTrip<'de, R>>⟧.same) ms a3)
              (each_row s (λ x. ⟦<u8 as Serialize>⟧.data_of x s.human) ⟦<u8 as Serialize>⟧.is_value
              (Only (⟦<u8 as Deserialize<'de, R>>⟧.reads s.human R.lends) ⟦<u8 as RoundTrip<'de, R>>⟧.same) (λ x10 h10. (byte_only s x10)) a3 fits.2.1)))
              (fields_cons s (codes "lit") _ _ _ (λ j. Only (⟦<bool as Deserialize<'de, R>>⟧.reads s.human R.lends) ⟦<bool as RoundTrip<'de, R>>⟧.same j a4) ⊥ _
              (truth_only s a4) (fields_none s)))))) (λ m q w r. variant_both names 25 _ _ _ m q r
              (λ c a b. content_fields (codes "left" ∷ (codes "right" ∷ (codes "top" ∷ (codes "lit" ∷ [])))) _ _ _ c a b.5
              (λ ks i j. let x = field_only (⟦<u8 as Deserialize<'de, R>>⟧.reads s.human R.lends) ⟦<u8 as RoundTrip<'de, R>>⟧.same a1 b.0 _ _ _ _
              (field_only (⟦<u8 as Deserialize<'de, R>>⟧.reads s.human R.lends) ⟦<u8 as RoundTrip<'de, R>>⟧.same a2 b.1 _ _ _ _
              (field_only (⟦<[u8; 2] as Deserialize<'de, R>>⟧.reads s.human R.lends) ⟦<[u8; 2] as RoundTrip<'de, R>>⟧.same a3 b.2 _ _ _ _
              (last_field (⟦<bool as Deserialize<'de, R>>⟧.reads s.human R.lends) ⟦<bool as RoundTrip<'de, R>>⟧.same a4 b.3 _))) ks i j
              in (b.0, b.1, b.2, b.3, b.4, x.0, x.1.0, x.1.1.0, x.1.1.1))))
          | the_signal.Flags a1 ↦ λ fits. lowers_then s _ _ (λ m. (w : _)
              → (⟦<Signal as Deserialize<'de, R>>⟧.reads s.human R.lends) m w
              → (b1 : _) × (w ≡ the_signal.Flags b1) × ⟦<Vec<(u8, char)> as RoundTrip<'de, R>>⟧.same a1 b1)
              (newtype_variant_row s names (codes "Flags") 26 refl
              (AtPlace 26 (Content (λ j. Only (⟦<Vec<(u8, char)> as Deserialize<'de, R>>⟧.reads s.human R.lends) ⟦<Vec<(u8, char)> as RoundTrip<'de, R>>⟧.same j
              a1))) _ (λ j. Only (⟦<Vec<(u8, char)> as Deserialize<'de, R>>⟧.reads s.human R.lends) ⟦<Vec<(u8, char)> as RoundTrip<'de, R>>⟧.same j a1)
              (λ m h. (refl, h)) (list_only s _ (λ w. w.items) (⟦<(u8, char) as Deserialize<'de, R>>⟧.reads s.human R.lends)
              ⟦<(u8, char) as RoundTrip<'de, R>>⟧.same a1.items (slice_row s _
              (λ ms. ReadsEach (Only (⟦<(u8, char) as Deserialize<'de, R>>⟧.reads s.human R.lends) ⟦<(u8, char) as RoundTrip<'de, R>>⟧.same) ms a1.items)
              (each_row s (λ x. ⟦<(u8, char) as Serialize>⟧.data_of x s.human) ⟦<(u8, char) as Serialize>⟧.is_value
              (Only (⟦<(u8, char) as Deserialize<'de, R>>⟧.reads s.human R.lends) ⟦<(u8, char) as RoundTrip<'de, R>>⟧.same)
              (λ x11 h11. (lowers_then s _ _ (λ j. Only (⟦<(u8, char) as Deserialize<'de, R>>⟧.reads s.human R.lends) ⟦<(u8, char) as RoundTrip<'de, R>>⟧.same j
              x11) (tuple_row s _ _ (rows_cons s _ _ (λ j. Only (⟦<u8 as Deserialize<'de, R>>⟧.reads s.human R.lends) ⟦<u8 as RoundTrip<'de, R>>⟧.same j x11.0) _
              (byte_only s x11.0) (rows_cons s _ _ (λ j. Only (⟦<char as Deserialize<'de, R>>⟧.reads s.human R.lends) ⟦<char as RoundTrip<'de, R>>⟧.same j x11.1)
              _ (char_only s x11.1 h11.1) (rows_none s)))) (λ m q w r. row_both _ _ _ m q r
              (item_only (⟦<u8 as Deserialize<'de, R>>⟧.reads s.human R.lends) ⟦<u8 as RoundTrip<'de, R>>⟧.same x11.0 w.0 _ _ _
              (last_only (⟦<char as Deserialize<'de, R>>⟧.reads s.human R.lends) ⟦<char as RoundTrip<'de, R>>⟧.same x11.1 w.1))))) a1.items fits))))
              (λ m q w r. variant_both names 26 _ _ _ m q r (λ c a b. (
                b.0,
                b.1,
                content_only (⟦<Vec<(u8, char)> as Deserialize<'de, R>>⟧.reads s.human R.lends) ⟦<Vec<(u8, char)> as RoundTrip<'de, R>>⟧.same a1 b.0 c a
                    b.2,
              )))
          | the_signal.Towed a1 a2 ↦ λ fits. lowers_then s _ _ (λ m. (w : _) → (⟦<Signal as Deserialize<'de, R>>⟧.reads s.human R.lends) m w
              → (b1 : _) × (b2 : _) × (w ≡ the_signal.Towed b1 b2) × ⟦<Box<Spot> as RoundTrip<'de, R>>⟧.same a1 b1 × ⟦<i64 as RoundTrip<'de, R>>⟧.same a2 b2)
              (struct_variant_row s names (codes "Towed") 27 refl
              (AtPlace 27 (Content (OfFields (codes "by" ∷ (codes "since" ∷ []))
              (Field (λ j. Only (⟦<Box<Spot> as Deserialize<'de, R>>⟧.reads s.human R.lends) ⟦<Box<Spot> as RoundTrip<'de, R>>⟧.same j a1) ⊥
              (Field (λ j. Only (⟦<i64 as Deserialize<'de, R>>⟧.reads s.human R.lends) ⟦<i64 as RoundTrip<'de, R>>⟧.same j a2) ⊥ NoField)))))
              (codes "by" ∷ (codes "since" ∷ [])) _ _ refl (λ m h. (refl, h))
              (fields_cons s (codes "by") _ _ _ (λ j. Only (⟦<Box<Spot> as Deserialize<'de, R>>⟧.reads s.human R.lends) ⟦<Box<Spot> as RoundTrip<'de, R>>⟧.same j
              a1) ⊥ _ (lowers_then s (⟦<Spot as Serialize>⟧.data_of a1.value s.human)
              (λ j. Only (⟦<Spot as Deserialize<'de, R>>⟧.reads s.human R.lends) ⟦<Spot as RoundTrip<'de, R>>⟧.same j a1.value)
              (λ j. Only (⟦<Box<Spot> as Deserialize<'de, R>>⟧.reads s.human R.lends) ⟦<Box<Spot> as RoundTrip<'de, R>>⟧.same j a1)
              (spot_rounds.only-law R.row R.ReadSlice.own (given 0) R.Source (given 0) s a1.value fits.0) (λ m q w r. q w.value r))
              (fields_cons s (codes "since") _ _ _ (λ j. Only (⟦<i64 as Deserialize<'de, R>>⟧.reads s.human R.lends) ⟦<i64 as RoundTrip<'de, R>>⟧.same j a2) ⊥ _
              (signed_only s (negsuc 9223372036854775807) (pos 9223372036854775807) a2) (fields_none s))))
              (λ m q w r. variant_both names 27 _ _ _ m q r (λ c a b. content_fields (codes "by" ∷ (codes "since" ∷ [])) _ _ _ c a b.3
              (λ ks i j. let x = field_only (⟦<Box<Spot> as Deserialize<'de, R>>⟧.reads s.human R.lends) ⟦<Box<Spot> as RoundTrip<'de, R>>⟧.same a1 b.0 _ _ _ _
              (last_field (⟦<i64 as Deserialize<'de, R>>⟧.reads s.human R.lends) ⟦<i64 as RoundTrip<'de, R>>⟧.same a2 b.1 _) ks i j
              in (b.0, b.1, b.2, x.0, x.1))))
          | the_signal.Fog a1 a2 ↦ λ fits. lowers_then s _ _ (λ m. (w : _)
              → (⟦<Signal as Deserialize<'de, R>>⟧.reads s.human R.lends) m w
              → (b1 : _) × (b2 : _) × (w ≡ the_signal.Fog b1 b2) × ⟦<Option<(u16, u16)> as RoundTrip<'de, R>>⟧.same a1 b1
              × ⟦<bool as RoundTrip<'de, R>>⟧.same a2 b2) (tuple_variant_row s names (codes "Fog") 28 refl
              (AtPlace 28 (Content (OfRow (AndThen (λ j. Only (⟦<Option<(u16, u16)> as Deserialize<'de, R>>⟧.reads s.human R.lends)
              ⟦<Option<(u16, u16)> as RoundTrip<'de, R>>⟧.same j a1)
              (AndThen (λ j. Only (⟦<bool as Deserialize<'de, R>>⟧.reads s.human R.lends) ⟦<bool as RoundTrip<'de, R>>⟧.same j a2) NoMore))))) _ _
              (λ m h. (refl, h)) (rows_cons s _ _ (λ j. Only (⟦<Option<(u16, u16)> as Deserialize<'de, R>>⟧.reads s.human R.lends)
              ⟦<Option<(u16, u16)> as RoundTrip<'de, R>>⟧.same j a1) _
              (option_only s _ (⟦<(u16, u16) as Deserialize<'de, R>>⟧.reads s.human R.lends) ⟦<(u16, u16) as RoundTrip<'de, R>>⟧.same a1
              (option_row s (λ x. ⟦<(u16, u16) as Serialize>⟧.data_of x s.human) ⟦<(u16, u16) as Serialize>⟧.is_value
              (Only (⟦<(u16, u16) as Deserialize<'de, R>>⟧.reads s.human R.lends) ⟦<(u16, u16) as RoundTrip<'de, R>>⟧.same) (λ x13. tuple_other s _)
              (λ x12 h12. (lowers_then s _ _ (λ j. Only (⟦<(u16, u16) as Deserialize<'de, R>>⟧.reads s.human R.lends) ⟦<(u16, u16) as RoundTrip<'de, R>>⟧.same j
              x12) (tuple_row s _ _ (rows_cons s _ _ (λ j. Only (⟦<u16 as Deserialize<'de, R>>⟧.reads s.human R.lends) ⟦<u16 as RoundTrip<'de, R>>⟧.same j x12.0)
              _ (unsigned_only s 65535 x12.0) (rows_cons s _ _ (λ j. Only (⟦<u16 as Deserialize<'de, R>>⟧.reads s.human R.lends) ⟦<u16 as RoundTrip<'de, R>>⟧.same
              j x12.1) _ (unsigned_only s 65535 x12.1) (rows_none s))))
              (λ m q w r. row_both _ _ _ m q r (item_only (⟦<u16 as Deserialize<'de, R>>⟧.reads s.human R.lends) ⟦<u16 as RoundTrip<'de, R>>⟧.same x12.0 w.0 _ _ _
              (last_only (⟦<u16 as Deserialize<'de, R>>⟧.reads s.human R.lends) ⟦<u16 as RoundTrip<'de, R>>⟧.same x12.1 w.1))))) a1 fits.0))
              (rows_cons s _ _ (λ j. Only (⟦<bool as Deserialize<'de, R>>⟧.reads s.human R.lends) ⟦<bool as RoundTrip<'de, R>>⟧.same j a2) _ (truth_only s a2)
              (rows_none s)))) (λ m q w r. variant_both names 28 _ _ _ m q r
              (λ c a b. content_row _ _ _ c a b.3 (λ ks i j. let x = item_only (⟦<Option<(u16, u16)> as Deserialize<'de, R>>⟧.reads s.human R.lends)
              ⟦<Option<(u16, u16)> as RoundTrip<'de, R>>⟧.same a1 b.0 _ _ _
              (last_only (⟦<bool as Deserialize<'de, R>>⟧.reads s.human R.lends) ⟦<bool as RoundTrip<'de, R>>⟧.same a2 b.1) ks i j in (b.0, b.1, b.2, x.0, x.1))))
          | the_signal.Farewell ↦ λ fits. lowers_then s (Some (unit_variant (codes "Farewell"))) (OfVariant names (AtPlace 29 AnyContent)) (λ m. (w : _)
              → (⟦<Signal as Deserialize<'de, R>>⟧.reads s.human R.lends) m w
              → (w ≡ the_signal.Farewell)) (bare_row s names (codes "Farewell") 29 refl (AtPlace 29 AnyContent) (refl, tt))
              (λ m q w r. variant_both names 29 AnyContent _ _ m q r (λ c a b. b.0))
        ] };
}

impl NeverNil for Signal {
    ghost never_nil = { λ s. elim [
      | the_signal.Silent ↦ bare_other s (codes "Silent")
      | the_signal.Call a1 ↦ newtype_variant_other s (codes "Call") _
      | the_signal.At a1 a2 ↦ tuple_variant_other s (codes "At") _
      | the_signal.Sail a1 a2 ↦ struct_variant_other s (codes "Sail") _
      | the_signal.Anchor ↦
          bare_other s (codes "Anchor")
      | the_signal.Depth a1 ↦ newtype_variant_other s (codes "Depth") _
      | the_signal.Depths a1 ↦ newtype_variant_other s
          (codes "Depths") _
      | the_signal.Spotted a1 ↦ newtype_variant_other s (codes "Spotted") _
      | the_signal.Crew a1 ↦ newtype_variant_other s
          (codes "Crew") _
      | the_signal.Meet a1 a2 a3 ↦ struct_variant_other s (codes "Meet") _
      | the_signal.Distress ↦ bare_other s (codes "Distress")
      | the_signal.Heading a1 ↦ newtype_variant_other s (codes "Heading") _
      | the_signal.Weather a1 a2 ↦ tuple_variant_other s (codes "Weather") _
      | the_signal.Cargo a1 ↦ newtype_variant_other s (codes "Cargo") _
      | the_signal.Ports a1 ↦ newtype_variant_other s (codes "Ports") _
      | the_signal.Chart
          a1 a2 a3 ↦ struct_variant_other s (codes "Chart") _
      | the_signal.Answer a1 ↦ newtype_variant_other s (codes "Answer") _
      | the_signal.Course a1 ↦
          newtype_variant_other s (codes "Course") _
      | the_signal.Pair a1 ↦ newtype_variant_other s (codes "Pair") _
      | the_signal.Maybe a1 ↦
          newtype_variant_other s (codes "Maybe") _
      | the_signal.Pilot a1 ↦ struct_variant_other s (codes "Pilot") _
      | the_signal.Quarantine ↦ bare_other s
          (codes "Quarantine")
      | the_signal.Tug a1 a2 a3 a4 ↦ tuple_variant_other s (codes "Tug") _
      | the_signal.Debt a1 ↦ newtype_variant_other s
          (codes "Debt") _
      | the_signal.Nothing a1 ↦ newtype_variant_other s (codes "Nothing") _
      | the_signal.Lights a1 a2 a3 a4 ↦ struct_variant_other s
          (codes "Lights") _
      | the_signal.Flags a1 ↦ newtype_variant_other s (codes "Flags") _
      | the_signal.Towed a1 a2 ↦ struct_variant_other s
          (codes "Towed") _
      | the_signal.Fog a1 a2 ↦ tuple_variant_other s (codes "Fog") _
      | the_signal.Farewell ↦ bare_other s (codes "Farewell")
    ] };
}

impl<'de, R: ReadSlice<'de>> EndsInside<'de, R> for Signal {
    ghost use Rattle.test_mixed.specs.contracts.mixed.derived.CourseEndsInside.TheImpl.Laws as course_ends;
    ghost use Rattle.test_mixed.specs.contracts.mixed.derived.SpotEndsInside.TheImpl.Laws as spot_ends;
    ghost use mir.Syntax.{given};

    ghost ends_inside = { enum_inside _ _ (
      no_content_inside,
      (
        with_content_inside _ (string_inside),
        (
          with_content_inside _
              (tuple_inside (part_of ⟦<i32 as Deserialize<'de, R>>⟧.reads ⟦<i32 as Deserialize<'de, R>>⟧.refuses
              ∷ (part_of ⟦<i32 as Deserialize<'de, R>>⟧.reads ⟦<i32 as Deserialize<'de, R>>⟧.refuses ∷ [])) (number_inside, (number_inside, tt))),
          (
            with_content_inside _ (fields_inside _ _ _ (
              (course_ends.ends_inside-law R.row R.ReadSlice.own (given 0) R.Source (given 0)),
              (number_inside, tt),
            )),
            (
              no_content_inside,
              (
                with_content_inside _ (number_inside),
                (
                  with_content_inside _ ((array_inside _ 4 ⟦<u16 as Deserialize<'de, R>>⟧.reads ⟦<u16 as Deserialize<'de, R>>⟧.refuses number_inside)),
                  (
                    with_content_inside _ ((spot_ends.ends_inside-law R.row R.ReadSlice.own (given 0) R.Source (given 0))),
                    (
                      with_content_inside _ ((each_inside ⟦<String as Deserialize<'de, R>>⟧.reads ⟦<String as Deserialize<'de, R>>⟧.refuses string_inside)),
                      (
                        with_content_inside _ (fields_inside _ _ _ (
                          (spot_ends.ends_inside-law R.row R.ReadSlice.own (given 0) R.Source (given 0)),
                          (number_inside, ((option_inside ⟦<String as Deserialize<'de, R>>⟧.refuses string_inside), tt)),
                        )),
                        (
                          no_content_inside,
                          (
                            with_content_inside _ (number_inside),
                            (
                              with_content_inside _ (tuple_inside (part_of ⟦<F64Bits as Deserialize<'de, R>>⟧.reads ⟦<F64Bits as Deserialize<'de, R>>⟧.refuses
                                  ∷ (part_of ⟦<char as Deserialize<'de, R>>⟧.reads ⟦<char as Deserialize<'de, R>>⟧.refuses ∷ [])) (kind_inside, (char_inside, tt))),
                              (
                                with_content_inside _ ((map_inside ⟦<String as Deserialize<'de, R>>⟧.reads ⟦<u64 as Deserialize<'de, R>>⟧.reads
                                    ⟦<String as Deserialize<'de, R>>⟧.refuses ⟦<u64 as Deserialize<'de, R>>⟧.refuses string_inside number_inside)),
                                (
                                  with_content_inside _ ((each_inside ⟦<u16 as Deserialize<'de, R>>⟧.reads ⟦<u16 as Deserialize<'de, R>>⟧.refuses number_inside)),
                                  (
                                    with_content_inside _ (fields_inside _ _ _ (string_inside, (unsigned128_inside, (buffer_inside, tt)))),
                                    (
                                      with_content_inside _ (kind_inside),
                                      (
                                        with_content_inside _ ((course_ends.ends_inside-law R.row R.ReadSlice.own (given 0) R.Source (given 0))),
                                        (
                                          with_content_inside _ ((tuple_inside (part_of ⟦<u8 as Deserialize<'de, R>>⟧.reads ⟦<u8 as Deserialize<'de, R>>⟧.refuses
                                              ∷ (part_of ⟦<String as Deserialize<'de, R>>⟧.reads ⟦<String as Deserialize<'de, R>>⟧.refuses ∷ [])) (number_inside, (string_inside, tt)))),
                                          (
                                            with_content_inside _ ((option_inside ⟦<u32 as Deserialize<'de, R>>⟧.refuses number_inside)),
                                            (
                                              with_content_inside _ (fields_inside _ _ _ (string_inside, tt)),
                                              (
                                                no_content_inside,
                                                (
                                                  with_content_inside _ (tuple_inside
                                                      (part_of ⟦<u8 as Deserialize<'de, R>>⟧.reads ⟦<u8 as Deserialize<'de, R>>⟧.refuses
                                                      ∷ (part_of ⟦<u16 as Deserialize<'de, R>>⟧.reads ⟦<u16 as Deserialize<'de, R>>⟧.refuses
                                                      ∷ (part_of ⟦<u32 as Deserialize<'de, R>>⟧.reads ⟦<u32 as Deserialize<'de, R>>⟧.refuses
                                                      ∷ (part_of ⟦<u64 as Deserialize<'de, R>>⟧.reads ⟦<u64 as Deserialize<'de, R>>⟧.refuses ∷ []))))
                                                      (number_inside, (number_inside, (number_inside, (number_inside, tt))))),
                                                  (
                                                    with_content_inside _ (signed128_inside),
                                                    (
                                                      with_content_inside _ (nil_inside),
                                                      (
                                                        with_content_inside _ (fields_inside _ _ _ (
                                                          number_inside,
                                                          (number_inside, ((array_inside _ 2 ⟦<u8 as Deserialize<'de, R>>⟧.reads ⟦<u8 as Deserialize<'de, R>>⟧.refuses number_inside), (kind_inside, tt))),
                                                        )),
                                                        (
                                                          with_content_inside _ ((each_inside ⟦<(u8, char) as Deserialize<'de, R>>⟧.reads ⟦<(u8, char) as Deserialize<'de, R>>⟧.refuses
                                                              (tuple_inside (part_of ⟦<u8 as Deserialize<'de, R>>⟧.reads ⟦<u8 as Deserialize<'de, R>>⟧.refuses
                                                              ∷ (part_of ⟦<char as Deserialize<'de, R>>⟧.reads ⟦<char as Deserialize<'de, R>>⟧.refuses ∷ [])) (number_inside, (char_inside, tt))))),
                                                          (
                                                            with_content_inside _ (fields_inside _ _ _ (
                                                              (box_inside ⟦<Spot as Deserialize<'de, R>>⟧.reads ⟦<Spot as Deserialize<'de, R>>⟧.refuses
                                                                  (spot_ends.ends_inside-law R.row R.ReadSlice.own (given 0) R.Source (given 0))),
                                                              (number_inside, tt),
                                                            )),
                                                            (
                                                              with_content_inside _ (tuple_inside (part_of ⟦<Option<(u16, u16)> as Deserialize<'de, R>>⟧.reads
                                                                  ⟦<Option<(u16, u16)> as Deserialize<'de, R>>⟧.refuses
                                                                  ∷ (part_of ⟦<bool as Deserialize<'de, R>>⟧.reads ⟦<bool as Deserialize<'de, R>>⟧.refuses ∷ [])) (
                                                                    (option_inside ⟦<(u16, u16) as Deserialize<'de, R>>⟧.refuses
                                                                        (tuple_inside (part_of ⟦<u16 as Deserialize<'de, R>>⟧.reads ⟦<u16 as Deserialize<'de, R>>⟧.refuses
                                                                        ∷ (part_of ⟦<u16 as Deserialize<'de, R>>⟧.reads ⟦<u16 as Deserialize<'de, R>>⟧.refuses ∷ [])) (number_inside, (number_inside, tt)))),
                                                                    (kind_inside, tt),
                                                                  )),
                                                              (no_content_inside, tt),
                                                            ),
                                                          ),
                                                        ),
                                                      ),
                                                    ),
                                                  ),
                                                ),
                                              ),
                                            ),
                                          ),
                                        ),
                                      ),
                                    ),
                                  ),
                                ),
                              ),
                            ),
                          ),
                        ),
                      ),
                    ),
                  ),
                ),
              ),
            ),
          ),
        ),
      ),
    ) };
}
