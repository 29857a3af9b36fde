//! How the types of ports.rt are written and read. Written by tools/derive.py.
//!
//! Sum of Entry: 752a938e.
ghost use Rattle.rmp_decode.specs.EnumRefusing.{RefusesEnum, no_content, with_content};
ghost use Rattle.rmp_decode.specs.FieldRefusing.{RefusesFields};
ghost use Rattle.rmp_decode.specs.Fields.{OfFields, Field, Absent, NoField};
ghost use Rattle.rmp_decode.specs.Refusing.{RefusesTuple, part_of};
ghost use Rattle.rmp_decode.specs.Rows.{AndThen, NoMore, ReadsEach};
ghost use Rattle.rmp_decode.specs.Seq.{OfRow};
ghost use Rattle.rmp_decode.specs.Variants.{OfVariant, Case, NoCase, Bare, Content};
ghost use Rattle.rmp_encode.specs.Data.{unit_variant};
ghost use Rattle.rmp_encode.specs.Refusals.{OfParts, OfSink};
ghost use Rattle.rmp_encode.specs.Sizes.{one_of};
ghost use Rattle.rmp_encode.specs.Trees.{tuple_variant_of, struct_variant_of, tuple_of};
ghost use Rattle.rmp_ends.specs.EnumEnds.{enum_inside, no_content_inside, with_content_inside};
ghost use Rattle.rmp_ends.specs.FieldEnds.{fields_inside};
ghost use Rattle.rmp_ends.specs.LeafEnds.{kind_inside, number_inside, char_inside, string_inside};
ghost use Rattle.rmp_ends.specs.MapEnds.{map_inside};
ghost use Rattle.rmp_ends.specs.RowEnds.{each_inside, option_inside, tuple_inside};
ghost use Rattle.rmp_round_trip.specs.AlikeData.{mapping_alike, option_alike, slice_alike, text_alike, variant_alike};
ghost use Rattle.rmp_round_trip.specs.AlikeOrder.{tied};
ghost use Rattle.rmp_round_trip.specs.LeafRounds.{byte_row, unsigned_row_16, unsigned_row_64, signed_row_16, signed_row_32};
ghost use Rattle.rmp_round_trip.specs.LeafRounds.{truth_row, char_row, string_row, pos_other};
ghost use Rattle.rmp_round_trip.specs.MapRounds.{mapping_some, map_row, pairs_row};
ghost use Rattle.rmp_round_trip.specs.OnlyFields.{AtPlace, AnyContent, content_fields, content_row, field_only, last_field, variant_both};
ghost use Rattle.rmp_round_trip.specs.OnlyLeaves.{truth_only, byte_only, unsigned_only, signed_only, char_only, string_only};
ghost use Rattle.rmp_round_trip.specs.OnlyMaps.{entries_only};
ghost use Rattle.rmp_round_trip.specs.OnlyRows.{item_only, last_only, list_only, lowers_then, option_only, row_both};
ghost use Rattle.rmp_round_trip.specs.RoundTrip.{Only};
ghost use Rattle.rmp_round_trip.specs.Rounds.{each_some, each_row, option_some, option_row, slice_some, slice_row, tuple_row, rows_none, rows_cons};
ghost use Rattle.rmp_round_trip.specs.StructRounds.{tuple_all, tuple_variant_all, struct_variant_all, fields_none, fields_cons};
ghost use Rattle.rmp_round_trip.specs.VariantRounds.{bare_row, tuple_variant_row, struct_variant_row, bare_other, tuple_variant_other, struct_variant_other};
ghost use Rattle.std.proofs.Common.{refl};
ghost use Rattle.std.proofs.lemmas.Cmp.{on_total, nat_list_cmp_total};
ghost use Rattle.std.specs.Cmp.Lexicographic.{slice_cmp};
ghost use Rattle.std.specs.Ordering.{nat_cmp};
ghost use Rattle.std.specs.Prelude.{◌≡◌, ◌∷◌, [], None, Some, codes, false, ⊤, string_bytes, true, pos, negsuc};
ghost use Rattle.test_enums.specs.declared.ports.Entry.TheVariants as the_entry;
ghost use Rattle.test_enums.specs.declared.ports.TheConstants.{BERTHS};

use super::{BERTHS, BTreeMap, Entry};
use rmp_decode::{Defaulted, Deserialize, Deserializer, ReadFields};
use rmp_encode::{Serialize, Serializer};
use rmp_ends::EndsInside;
use rmp_round_trip::{NeverNil, RoundTrip};
use rmp_wire::config::SerializerConfig;
use rmp_wire::{ReadSlice, Sink};

impl Serialize for Entry {
    ghost data_of = { λ v human. elim v [
      | the_entry.Closed ↦ Some (unit_variant (codes "Closed"))
      | the_entry.Harbour a1 a2 a3 a4 ↦ struct_variant_of
          (codes "Harbour") ((codes "name", ⟦<String as Serialize>⟧.data_of a1 human)
          ∷ ((codes "berths", ⟦<u16 as Serialize>⟧.data_of a2 human)
          ∷ ((codes "depth", ⟦<i32 as Serialize>⟧.data_of a3 human) ∷ ((codes "notes", ⟦<Vec<String> as Serialize>⟧.data_of a4 human) ∷ []))))
      | the_entry.Queue a1 a2 ↦ tuple_variant_of (codes "Queue") (⟦<Vec<u16> as Serialize>⟧.data_of a1 human ∷ (⟦<u8 as Serialize>⟧.data_of a2 human ∷ []))
      | the_entry.Convoy a1 a2 ↦ struct_variant_of (codes "Convoy")
          ((codes "ships", ⟦<Vec<String> as Serialize>⟧.data_of a1 human) ∷ ((codes "led", ⟦<bool as Serialize>⟧.data_of a2 human) ∷ []))
      | the_entry.Tally a1
          a2 ↦ tuple_variant_of (codes "Tally") (⟦<BTreeMap<String, u64> as Serialize>⟧.data_of a1 human ∷ (⟦<i16 as Serialize>⟧.data_of a2 human ∷ []))
      | the_entry.Shift a1 a2 ↦ tuple_variant_of (codes "Shift")
          (⟦<Vec<u8> as Serialize>⟧.data_of a1 human ∷ (⟦<Vec<(u8, char)> as Serialize>⟧.data_of a2 human ∷ []))
      | the_entry.Canal a1 a2 a3 ↦
          struct_variant_of (codes "Canal") ((codes "locked", ⟦<bool as Serialize>⟧.data_of a1 human)
          ∷ ((codes "width", ⟦<Option<u16> as Serialize>⟧.data_of a2 human) ∷ ((codes "berths", ⟦<u16 as Serialize>⟧.data_of a3 human) ∷ [])))
    ] };

    ghost is_value = { λ v. elim v [
      | the_entry.Closed ↦ ⊤
      | the_entry.Harbour a1 a2 a3 a4 ↦ ⟦<String as Serialize>⟧.is_value a1
          × ⟦<u16 as Serialize>⟧.is_value a2 × ⟦<i32 as Serialize>⟧.is_value a3
          × ⟦<Vec<String> as Serialize>⟧.is_value a4
      | the_entry.Queue a1 a2 ↦ ⟦<Vec<u16> as Serialize>⟧.is_value a1
          × ⟦<u8 as Serialize>⟧.is_value a2
      | the_entry.Convoy a1 a2 ↦ ⟦<Vec<String> as Serialize>⟧.is_value a1
          × ⟦<bool as Serialize>⟧.is_value a2
      | the_entry.Tally a1 a2 ↦ ⟦<BTreeMap<String, u64> as Serialize>⟧.is_value a1
          × ⟦<i16 as Serialize>⟧.is_value a2
      | the_entry.Shift a1 a2 ↦ ⟦<Vec<u8> as Serialize>⟧.is_value a1
          × ⟦<Vec<(u8, char)> as Serialize>⟧.is_value a2
      | the_entry.Canal a1 a2 a3 ↦ ⟦<bool as Serialize>⟧.is_value a1
          × ⟦<Option<u16> as Serialize>⟧.is_value a2 × ⟦<u16 as Serialize>⟧.is_value a3
    ] };

    ghost takes_memory = { λ s. one_of (false ∷ (one_of
        (⟦<String as Serialize>⟧.takes_memory s ∷ (⟦<u16 as Serialize>⟧.takes_memory s
        ∷ (⟦<i32 as Serialize>⟧.takes_memory s ∷ (⟦<Vec<String> as Serialize>⟧.takes_memory s ∷ []))))
        ∷ (one_of (⟦<Vec<u16> as Serialize>⟧.takes_memory s ∷ (⟦<u8 as Serialize>⟧.takes_memory s ∷ []))
        ∷ (one_of (⟦<Vec<String> as Serialize>⟧.takes_memory s ∷ (⟦<bool as Serialize>⟧.takes_memory s ∷ []))
        ∷ (one_of (⟦<BTreeMap<String, u64> as Serialize>⟧.takes_memory s ∷ (⟦<i16 as Serialize>⟧.takes_memory s ∷ []))
        ∷ (one_of (⟦<Vec<u8> as Serialize>⟧.takes_memory s ∷ (⟦<Vec<(u8, char)> as Serialize>⟧.takes_memory s ∷ []))
        ∷ (one_of (⟦<bool as Serialize>⟧.takes_memory s ∷ (⟦<Option<u16> as Serialize>⟧.takes_memory s ∷ (⟦<u16 as Serialize>⟧.takes_memory s ∷ [])))
        ∷ []))))))) };

    ghost refuses = { λ v. elim v [
      | the_entry.Closed ↦ OfSink
      | the_entry.Harbour a1 a2 a3 a4 ↦ OfParts ⊥
          (⟦<String as Serialize>⟧.refuses a1 ∷ (⟦<u16 as Serialize>⟧.refuses a2
          ∷ (⟦<i32 as Serialize>⟧.refuses a3 ∷ (⟦<Vec<String> as Serialize>⟧.refuses a4 ∷ []))))
      | the_entry.Queue a1 a2 ↦ OfParts ⊥
          (⟦<Vec<u16> as Serialize>⟧.refuses a1 ∷ (⟦<u8 as Serialize>⟧.refuses a2 ∷ []))
      | the_entry.Convoy a1 a2 ↦ OfParts ⊥
          (⟦<Vec<String> as Serialize>⟧.refuses a1 ∷ (⟦<bool as Serialize>⟧.refuses a2 ∷ []))
      | the_entry.Tally a1 a2 ↦ OfParts ⊥
          (⟦<BTreeMap<String, u64> as Serialize>⟧.refuses a1 ∷ (⟦<i16 as Serialize>⟧.refuses a2 ∷ []))
      | the_entry.Shift a1 a2 ↦ OfParts ⊥
          (⟦<Vec<u8> as Serialize>⟧.refuses a1 ∷ (⟦<Vec<(u8, char)> as Serialize>⟧.refuses a2 ∷ []))
      | the_entry.Canal a1 a2 a3 ↦ OfParts ⊥
          (⟦<bool as Serialize>⟧.refuses a1 ∷ (⟦<Option<u16> as Serialize>⟧.refuses a2 ∷ (⟦<u16 as Serialize>⟧.refuses a3 ∷ [])))
    ] };

    #[tactic(auto, unfolding(rmp_encode::specs::Data::lower))]
    fn serialize<W: Sink, C: SerializerConfig>(
        &self,
        se: &mut Serializer<W, C>,
    ) -> Result<(), rmp_encode::Error> {
        match self {
            Entry::Closed => se.serialize_unit_variant("Entry", 0, "Closed"),
            Entry::Harbour {
                name,
                berths,
                depth,
                notes,
            } => {
                let parts = rmp_encode::Four {
                    first: name,
                    second: berths,
                    third: depth,
                    fourth: notes,
                };
                se.serialize_struct_variant_of(
                    "Entry",
                    1,
                    "Harbour",
                    &["name", "berths", "depth", "notes"],
                    &parts,
                )
            }
            Entry::Queue(first, second) => {
                let parts = rmp_encode::Both { first, second };
                se.serialize_tuple_variant_of("Entry", 2, "Queue", &parts)
            }
            Entry::Convoy { ships, led } => {
                let parts = rmp_encode::Both {
                    first: ships,
                    second: led,
                };
                se.serialize_struct_variant_of("Entry", 3, "Convoy", &["ships", "led"], &parts)
            }
            Entry::Tally(first, second) => {
                let parts = rmp_encode::Both { first, second };
                se.serialize_tuple_variant_of("Entry", 4, "Tally", &parts)
            }
            Entry::Shift(first, second) => {
                let parts = rmp_encode::Both { first, second };
                se.serialize_tuple_variant_of("Entry", 5, "Shift", &parts)
            }
            Entry::Canal {
                locked,
                width,
                berths,
            } => {
                let parts = rmp_encode::Three {
                    first: locked,
                    second: width,
                    third: berths,
                };
                se.serialize_struct_variant_of(
                    "Entry",
                    6,
                    "Canal",
                    &["locked", "width", "berths"],
                    &parts,
                )
            }
        }
    }

    fn as_u8(&self, _human: bool) -> Option<u8> {
        match self {
            Entry::Closed => None,
            Entry::Harbour { .. } => None,
            Entry::Queue(_, _) => None,
            Entry::Convoy { .. } => None,
            Entry::Tally(_, _) => None,
            Entry::Shift(_, _) => None,
            Entry::Canal { .. } => None,
        }
    }
}

impl<'de, R: ReadSlice<'de>> Deserialize<'de, R> for Entry {
    ghost reads = { λ human lends m v. OfVariant (codes "Closed"
        ∷ (codes "Harbour" ∷ (codes "Queue" ∷ (codes "Convoy" ∷ (codes "Tally" ∷ (codes "Shift" ∷ (codes "Canal" ∷ [])))))))
        (Case (λ c. (v ≡ the_entry.Closed) × Bare c) (Case
        (λ c. (a1 : _) × (a2 : _) × (a3 : _) × (a4 : _) × (v ≡ the_entry.Harbour a1 a2 a3 a4)
        × Content (λ k. OfFields (codes "name" ∷ (codes "berths" ∷ (codes "depth" ∷ (codes "notes" ∷ []))))
        (Field (λ j. ⟦<String as Deserialize<'de, R>>⟧.reads human lends j a1) (Absent ⟦<String as Deserialize<'de, R>>⟧.absent a1)
        (Field (λ j. ⟦<u16 as Deserialize<'de, R>>⟧.reads human lends j a2) (a2 ≡ BERTHS)
        (Field (λ j. ⟦<i32 as Deserialize<'de, R>>⟧.reads human lends j a3) (a3 ≡ negsuc 0)
        (Field (λ j. ⟦<Vec<String> as Deserialize<'de, R>>⟧.reads human lends j a4) (a4.items ≡ []) NoField)))) k) c)
        (Case (λ c. (a1 : _) × (a2 : _) × (v ≡ the_entry.Queue a1 a2)
        × Content (λ k. OfRow (AndThen (λ j. ⟦<Vec<u16> as Deserialize<'de, R>>⟧.reads human lends j a1)
        (AndThen (λ j. ⟦<u8 as Deserialize<'de, R>>⟧.reads human lends j a2) NoMore)) k) c)
        (Case (λ c. (a1 : _) × (a2 : _) × (v ≡ the_entry.Convoy a1 a2)
        × Content (λ k. OfFields (codes "ships" ∷ (codes "led" ∷ []))
        (Field (λ j. ⟦<Vec<String> as Deserialize<'de, R>>⟧.reads human lends j a1) (Absent ⟦<Vec<String> as Deserialize<'de, R>>⟧.absent a1)
        (Field (λ j. ⟦<bool as Deserialize<'de, R>>⟧.reads human lends j a2) (Absent ⟦<bool as Deserialize<'de, R>>⟧.absent a2) NoField)) k) c)
        (Case (λ c. (a1 : _) × (a2 : _) × (v ≡ the_entry.Tally a1 a2)
        × Content (λ k. OfRow (AndThen (λ j. ⟦<BTreeMap<String, u64> as Deserialize<'de, R>>⟧.reads human lends j a1)
        (AndThen (λ j. ⟦<i16 as Deserialize<'de, R>>⟧.reads human lends j a2) NoMore)) k) c)
        (Case (λ c. (a1 : _) × (a2 : _) × (v ≡ the_entry.Shift a1 a2)
        × Content (λ k. OfRow (AndThen (λ j. ⟦<Vec<u8> as Deserialize<'de, R>>⟧.reads human lends j a1)
        (AndThen (λ j. ⟦<Vec<(u8, char)> as Deserialize<'de, R>>⟧.reads human lends j a2) NoMore)) k) c)
        (Case (λ c. (a1 : _) × (a2 : _) × (a3 : _) × (v ≡ the_entry.Canal a1 a2 a3)
        × Content (λ k. OfFields (codes "locked" ∷ (codes "width" ∷ (codes "berths" ∷ [])))
        (Field (λ j. ⟦<bool as Deserialize<'de, R>>⟧.reads human lends j a1) (a1 ≡ true)
        (Field (λ j. ⟦<Option<u16> as Deserialize<'de, R>>⟧.reads human lends j a2) (Absent ⟦<Option<u16> as Deserialize<'de, R>>⟧.absent a2)
        (Field (λ j. ⟦<u16 as Deserialize<'de, R>>⟧.reads human lends j a3) (a3 ≡ 0) NoField))) k) c) NoCase))))))) m };

    ghost absent = { None };

    ghost refuses = { RefusesEnum (codes "Closed" ∷ (codes "Harbour"
        ∷ (codes "Queue" ∷ (codes "Convoy" ∷ (codes "Tally" ∷ (codes "Shift" ∷ (codes "Canal" ∷ [])))))))
        (no_content ∷ (with_content (RefusesFields (codes "name" ∷ (codes "berths" ∷ (codes "depth" ∷ (codes "notes" ∷ []))))
        ⟦<(String, Defaulted<u16>, Defaulted<i32>, Defaulted<Vec<String>>, ()) as ReadFields<'de, R>>⟧.needed
        ⟦<(String, Defaulted<u16>, Defaulted<i32>, Defaulted<Vec<String>>, ()) as ReadFields<'de, R>>⟧.parts)
        ∷ (with_content (RefusesTuple (part_of ⟦<Vec<u16> as Deserialize<'de, R>>⟧.reads ⟦<Vec<u16> as Deserialize<'de, R>>⟧.refuses
        ∷ (part_of ⟦<u8 as Deserialize<'de, R>>⟧.reads ⟦<u8 as Deserialize<'de, R>>⟧.refuses ∷ [])))
        ∷ (with_content (RefusesFields (codes "ships" ∷ (codes "led" ∷ [])) ⟦<(Vec<String>, (bool, ())) as ReadFields<'de, R>>⟧.needed
        ⟦<(Vec<String>, (bool, ())) as ReadFields<'de, R>>⟧.parts)
        ∷ (with_content (RefusesTuple (part_of ⟦<BTreeMap<String, u64> as Deserialize<'de, R>>⟧.reads
        ⟦<BTreeMap<String, u64> as Deserialize<'de, R>>⟧.refuses
        ∷ (part_of ⟦<i16 as Deserialize<'de, R>>⟧.reads ⟦<i16 as Deserialize<'de, R>>⟧.refuses ∷ [])))
        ∷ (with_content (RefusesTuple (part_of ⟦<Vec<u8> as Deserialize<'de, R>>⟧.reads ⟦<Vec<u8> as Deserialize<'de, R>>⟧.refuses
        ∷ (part_of ⟦<Vec<(u8, char)> as Deserialize<'de, R>>⟧.reads ⟦<Vec<(u8, char)> as Deserialize<'de, R>>⟧.refuses ∷ [])))
        ∷ (with_content (RefusesFields (codes "locked" ∷ (codes "width" ∷ (codes "berths" ∷ [])))
        ⟦<(Defaulted<bool>, (Option<u16>, (Defaulted<u16>, ()))) as ReadFields<'de, R>>⟧.needed
        ⟦<(Defaulted<bool>, (Option<u16>, (Defaulted<u16>, ()))) as ReadFields<'de, R>>⟧.parts) ∷ []))))))) };

    fn deserialize<C: SerializerConfig>(
        de: &mut Deserializer<R, C>,
    ) -> Result<Entry, rmp_decode::Error> {
        match de.deserialize_enum(&[
            "Closed", "Harbour", "Queue", "Convoy", "Tally", "Shift", "Canal",
        ]) {
            Ok((0, variant)) => match variant.unit_variant() {
                Ok(()) => return Ok(Entry::Closed),
                Err(e) => return Err(e),
            },
            Ok((1, variant)) => match variant.fields_variant(&[
                "name", "berths", "depth", "notes",
            ]) {
                Ok(parts) => {
                    let parts: (
                        String,
                        Defaulted<u16>,
                        Defaulted<i32>,
                        Defaulted<Vec<String>>,
                        (),
                    ) = parts;
                    let (name, berths, depth, notes, ()) = parts;
                    let berths = berths.value.unwrap_or(BERTHS);
                    let depth = depth.value.unwrap_or(-1);
                    let notes = notes.value.unwrap_or(Vec::new(de.alloc()));
                    return Ok(Entry::Harbour {
                        name,
                        berths,
                        depth,
                        notes,
                    });
                }
                Err(e) => return Err(e),
            },
            Ok((2, variant)) => match variant.newtype_variant() {
                Ok(parts) => {
                    let (first, second) = parts;
                    return Ok(Entry::Queue(first, second));
                }
                Err(e) => return Err(e),
            },
            Ok((3, variant)) => match variant.fields_variant(&["ships", "led"]) {
                Ok(parts) => {
                    let (ships, (led, ())) = parts;
                    return Ok(Entry::Convoy { ships, led });
                }
                Err(e) => return Err(e),
            },
            Ok((4, variant)) => match variant.newtype_variant() {
                Ok(parts) => {
                    let (first, second) = parts;
                    return Ok(Entry::Tally(first, second));
                }
                Err(e) => return Err(e),
            },
            Ok((5, variant)) => match variant.newtype_variant() {
                Ok(parts) => {
                    let (first, second) = parts;
                    return Ok(Entry::Shift(first, second));
                }
                Err(e) => return Err(e),
            },
            Ok((_, variant)) => match variant.fields_variant(&["locked", "width", "berths"]) {
                Ok(parts) => {
                    let parts: (Defaulted<bool>, (Option<u16>, (Defaulted<u16>, ()))) = parts;
                    let (locked, (width, (berths, ()))) = parts;
                    let locked = locked.value.unwrap_or(true);
                    let berths = berths.value.unwrap_or(0);
                    return Ok(Entry::Canal {
                        locked,
                        width,
                        berths,
                    });
                }
                Err(e) => return Err(e),
            },
            Err(e) => return Err(e),
        }
    }

    fn missing() -> Option<Entry> {
        None
    }
}

impl<'de, R: ReadSlice<'de>> RoundTrip<'de, R> for Entry {
    ghost has_data = { λ human. elim [
      | the_entry.Closed ↦ refl
      | the_entry.Harbour a1 a2 a3 a4 ↦ struct_variant_all (codes "Harbour")
          ((codes "name", ⟦<String as Serialize>⟧.data_of a1 human)
          ∷ ((codes "berths", ⟦<u16 as Serialize>⟧.data_of a2 human)
          ∷ ((codes "depth", ⟦<i32 as Serialize>⟧.data_of a3 human) ∷ ((codes "notes", ⟦<Vec<String> as Serialize>⟧.data_of a4 human) ∷ []))))
          (refl, (refl, (refl, ((slice_some _ (each_some (λ x. ⟦<String as Serialize>⟧.data_of x human) (λ x1. refl) a4.items)), tt))))
      | the_entry.Queue a1
          a2 ↦ tuple_variant_all (codes "Queue") (⟦<Vec<u16> as Serialize>⟧.data_of a1 human ∷ (⟦<u8 as Serialize>⟧.data_of a2 human ∷ []))
          ((slice_some _ (each_some (λ x. ⟦<u16 as Serialize>⟧.data_of x human) (λ x2. refl) a1.items)), (refl, tt))
      | the_entry.Convoy a1 a2 ↦
          struct_variant_all (codes "Convoy") ((codes "ships", ⟦<Vec<String> as Serialize>⟧.data_of a1 human)
          ∷ ((codes "led", ⟦<bool as Serialize>⟧.data_of a2 human) ∷ []))
          ((slice_some _ (each_some (λ x. ⟦<String as Serialize>⟧.data_of x human) (λ x3. refl) a1.items)), (refl, tt))
      | the_entry.Tally a1 a2 ↦
          tuple_variant_all (codes "Tally") (⟦<BTreeMap<String, u64> as Serialize>⟧.data_of a1 human ∷ (⟦<i16 as Serialize>⟧.data_of a2 human ∷ [])) (
            (mapping_some (λ x. ⟦<String as Serialize>⟧.data_of x human) (λ x. ⟦<u64 as Serialize>⟧.data_of x human) (λ x4. refl) (λ x4. refl) a1.entries),
            (refl, tt),
          )
      | the_entry.Shift a1 a2 ↦ tuple_variant_all (codes "Shift")
          (⟦<Vec<u8> as Serialize>⟧.data_of a1 human ∷ (⟦<Vec<(u8, char)> as Serialize>⟧.data_of a2 human ∷ [])) (
            (slice_some _ (each_some (λ x. ⟦<u8 as Serialize>⟧.data_of x human) (λ x5. refl) a1.items)),
            (
              (slice_some _ (each_some (λ x. ⟦<(u8, char) as Serialize>⟧.data_of x human)
                  (λ x6. (tuple_all (⟦<u8 as Serialize>⟧.data_of x6.0 human ∷ (⟦<char as Serialize>⟧.data_of x6.1 human ∷ [])) (refl, (refl, tt)))) a2.items)),
              tt,
            ),
          )
      | the_entry.Canal a1 a2 a3 ↦ struct_variant_all (codes "Canal")
          ((codes "locked", ⟦<bool as Serialize>⟧.data_of a1 human)
          ∷ ((codes "width", ⟦<Option<u16> as Serialize>⟧.data_of a2 human) ∷ ((codes "berths", ⟦<u16 as Serialize>⟧.data_of a3 human) ∷ [])))
          (refl, ((option_some (λ x. ⟦<u16 as Serialize>⟧.data_of x human) (λ x7. refl) a2), (refl, tt)))
    ] };

    ghost round = { λ lent s. let names = codes "Closed"
        ∷ (codes "Harbour" ∷ (codes "Queue" ∷ (codes "Convoy" ∷ (codes "Tally" ∷ (codes "Shift" ∷ (codes "Canal" ∷ []))))))
        in elim [
          | the_entry.Closed ↦ λ fits. bare_row s names (codes "Closed") 0 refl _ (refl, tt)
          | the_entry.Harbour a1 a2 a3 a4 ↦ λ fits.
              struct_variant_row s names (codes "Harbour") 1 refl _ (codes "name" ∷ (codes "berths" ∷ (codes "depth" ∷ (codes "notes" ∷ [])))) _ _ refl
              (λ m h. (a1, a2, a3, a4, refl, h)) (fields_cons s (codes "name") _ _ _ (λ j. ⟦<String as Deserialize<'de, R>>⟧.reads s.human R.lends j a1)
              (Absent ⟦<String as Deserialize<'de, R>>⟧.absent a1) _ (string_row s (string_bytes a1))
              (fields_cons s (codes "berths") _ _ _ (λ j. ⟦<u16 as Deserialize<'de, R>>⟧.reads s.human R.lends j a2) (a2 ≡ BERTHS) _ (unsigned_row_16 s a2 fits.1)
              (fields_cons s (codes "depth") _ _ _ (λ j. ⟦<i32 as Deserialize<'de, R>>⟧.reads s.human R.lends j a3) (a3 ≡ negsuc 0) _ (signed_row_32 s a3 fits.2)
              (fields_cons s (codes "notes") _ _ _ (λ j. ⟦<Vec<String> as Deserialize<'de, R>>⟧.reads s.human R.lends j a4) (a4.items ≡ []) _
              (slice_row s _ (λ ms. ReadsEach (⟦<String as Deserialize<'de, R>>⟧.reads s.human R.lends) ms a4.items)
              (each_row s (λ x. ⟦<String as Serialize>⟧.data_of x s.human) ⟦<String as Serialize>⟧.is_value
              (⟦<String as Deserialize<'de, R>>⟧.reads s.human R.lends) (λ x8 h8. (string_row s (string_bytes x8))) a4.items fits.3)) (fields_none s)))))
          | the_entry.Queue a1 a2 ↦ λ fits. tuple_variant_row s names (codes "Queue") 2 refl _ _ _ (λ m h. (a1, a2, refl, h))
              (rows_cons s _ _ (λ j. ⟦<Vec<u16> as Deserialize<'de, R>>⟧.reads s.human R.lends j a1) _
              (slice_row s _ (λ ms. ReadsEach (⟦<u16 as Deserialize<'de, R>>⟧.reads s.human R.lends) ms a1.items)
              (each_row s (λ x. ⟦<u16 as Serialize>⟧.data_of x s.human) ⟦<u16 as Serialize>⟧.is_value (⟦<u16 as Deserialize<'de, R>>⟧.reads s.human R.lends)
              (λ x9 h9. (unsigned_row_16 s x9 h9)) a1.items fits.0))
              (rows_cons s _ _ (λ j. ⟦<u8 as Deserialize<'de, R>>⟧.reads s.human R.lends j a2) _ (byte_row s a2 fits.1) (rows_none s)))
          | the_entry.Convoy a1 a2 ↦
              λ fits. struct_variant_row s names (codes "Convoy") 3 refl _ (codes "ships" ∷ (codes "led" ∷ [])) _ _ refl (λ m h. (a1, a2, refl, h))
              (fields_cons s (codes "ships") _ _ _ (λ j. ⟦<Vec<String> as Deserialize<'de, R>>⟧.reads s.human R.lends j a1)
              (Absent ⟦<Vec<String> as Deserialize<'de, R>>⟧.absent a1) _
              (slice_row s _ (λ ms. ReadsEach (⟦<String as Deserialize<'de, R>>⟧.reads s.human R.lends) ms a1.items)
              (each_row s (λ x. ⟦<String as Serialize>⟧.data_of x s.human) ⟦<String as Serialize>⟧.is_value
              (⟦<String as Deserialize<'de, R>>⟧.reads s.human R.lends) (λ x10 h10. (string_row s (string_bytes x10))) a1.items fits.0))
              (fields_cons s (codes "led") _ _ _ (λ j. ⟦<bool as Deserialize<'de, R>>⟧.reads s.human R.lends j a2)
              (Absent ⟦<bool as Deserialize<'de, R>>⟧.absent a2) _ (truth_row s a2) (fields_none s)))
          | the_entry.Tally a1 a2 ↦ λ fits. tuple_variant_row s names
              (codes "Tally") 4 refl _ _ _ (λ m h. (a1, a2, refl, h))
              (rows_cons s _ _ (λ j. ⟦<BTreeMap<String, u64> as Deserialize<'de, R>>⟧.reads s.human R.lends j a1) _
              (map_row s (λ x. ⟦<String as Serialize>⟧.data_of x s.human) (λ x. ⟦<u64 as Serialize>⟧.data_of x s.human) ⟦<String as Serialize>⟧.is_value
              ⟦<u64 as Serialize>⟧.is_value (⟦<String as Deserialize<'de, R>>⟧.reads s.human R.lends) (⟦<u64 as Deserialize<'de, R>>⟧.reads s.human R.lends)
              (λ x11 h11. (string_row s (string_bytes x11))) (λ x12 h12. (unsigned_row_64 s x12 h12)) (on_total (λ x. string_bytes x) nat_list_cmp_total)
              a1.entries fits.0.1 fits.0.0) (rows_cons s _ _ (λ j. ⟦<i16 as Deserialize<'de, R>>⟧.reads s.human R.lends j a2) _ (signed_row_16 s a2 fits.1)
              (rows_none s)))
          | the_entry.Shift a1 a2 ↦ λ fits. tuple_variant_row s names (codes "Shift") 5 refl _ _ _ (λ m h. (a1, a2, refl, h))
              (rows_cons s _ _ (λ j. ⟦<Vec<u8> as Deserialize<'de, R>>⟧.reads s.human R.lends j a1) _
              (slice_row s _ (λ ms. ReadsEach (⟦<u8 as Deserialize<'de, R>>⟧.reads s.human R.lends) ms a1.items)
              (each_row s (λ x. ⟦<u8 as Serialize>⟧.data_of x s.human) ⟦<u8 as Serialize>⟧.is_value (⟦<u8 as Deserialize<'de, R>>⟧.reads s.human R.lends)
              (λ x13 h13. (byte_row s x13 h13)) a1.items fits.0))
              (rows_cons s _ _ (λ j. ⟦<Vec<(u8, char)> as Deserialize<'de, R>>⟧.reads s.human R.lends j a2) _
              (slice_row s _ (λ ms. ReadsEach (⟦<(u8, char) as Deserialize<'de, R>>⟧.reads s.human R.lends) ms a2.items)
              (each_row s (λ x. ⟦<(u8, char) as Serialize>⟧.data_of x s.human) ⟦<(u8, char) as Serialize>⟧.is_value
              (⟦<(u8, char) as Deserialize<'de, R>>⟧.reads s.human R.lends)
              (λ x14 h14. (tuple_row s _ _ (rows_cons s _ _ (λ j. ⟦<u8 as Deserialize<'de, R>>⟧.reads s.human R.lends j x14.0) _ (byte_row s x14.0 h14.0)
              (rows_cons s _ _ (λ j. ⟦<char as Deserialize<'de, R>>⟧.reads s.human R.lends j x14.1) _ (char_row s x14.1 h14.1) (rows_none s))))) a2.items fits.1))
              (rows_none s)))
          | the_entry.Canal a1 a2 a3 ↦ λ fits. struct_variant_row s names (codes "Canal") 6 refl _
              (codes "locked" ∷ (codes "width" ∷ (codes "berths" ∷ []))) _ _ refl (λ m h. (a1, a2, a3, refl, h))
              (fields_cons s (codes "locked") _ _ _ (λ j. ⟦<bool as Deserialize<'de, R>>⟧.reads s.human R.lends j a1) (a1 ≡ true) _ (truth_row s a1)
              (fields_cons s (codes "width") _ _ _ (λ j. ⟦<Option<u16> as Deserialize<'de, R>>⟧.reads s.human R.lends j a2)
              (Absent ⟦<Option<u16> as Deserialize<'de, R>>⟧.absent a2) _
              (option_row s (λ x. ⟦<u16 as Serialize>⟧.data_of x s.human) ⟦<u16 as Serialize>⟧.is_value (⟦<u16 as Deserialize<'de, R>>⟧.reads s.human R.lends)
              (λ x16. pos_other s x16) (λ x15 h15. (unsigned_row_16 s x15 h15)) a2 fits.1)
              (fields_cons s (codes "berths") _ _ _ (λ j. ⟦<u16 as Deserialize<'de, R>>⟧.reads s.human R.lends j a3) (a3 ≡ 0) _ (unsigned_row_16 s a3 fits.2)
              (fields_none s))))
        ] };

    ghost same = { λ v w. elim v [
      | the_entry.Closed ↦ (w ≡ the_entry.Closed)
      | the_entry.Harbour a1 a2 a3 a4 ↦ (b1 : _) × (b2 : _) × (b3 : _) × (b4 : _)
          × (w ≡ the_entry.Harbour b1 b2 b3 b4) × ⟦<String as RoundTrip<'de, R>>⟧.same a1 b1 × ⟦<u16 as RoundTrip<'de, R>>⟧.same a2 b2
          × ⟦<i32 as RoundTrip<'de, R>>⟧.same a3 b3 × ⟦<Vec<String> as RoundTrip<'de, R>>⟧.same a4 b4
      | the_entry.Queue a1 a2 ↦ (b1 : _) × (b2 : _)
          × (w ≡ the_entry.Queue b1 b2) × ⟦<Vec<u16> as RoundTrip<'de, R>>⟧.same a1 b1
          × ⟦<u8 as RoundTrip<'de, R>>⟧.same a2 b2
      | the_entry.Convoy a1 a2 ↦ (b1 : _) × (b2 : _) × (w ≡ the_entry.Convoy b1 b2)
          × ⟦<Vec<String> as RoundTrip<'de, R>>⟧.same a1 b1 × ⟦<bool as RoundTrip<'de, R>>⟧.same a2 b2
      | the_entry.Tally a1 a2 ↦ (b1 : _) × (b2 : _)
          × (w ≡ the_entry.Tally b1 b2) × ⟦<BTreeMap<String, u64> as RoundTrip<'de, R>>⟧.same a1 b1
          × ⟦<i16 as RoundTrip<'de, R>>⟧.same a2 b2
      | the_entry.Shift a1 a2 ↦ (b1 : _) × (b2 : _) × (w ≡ the_entry.Shift b1 b2)
          × ⟦<Vec<u8> as RoundTrip<'de, R>>⟧.same a1 b1 × ⟦<Vec<(u8, char)> as RoundTrip<'de, R>>⟧.same a2 b2
      | the_entry.Canal a1 a2 a3 ↦ (b1 : _) × (b2 : _)
          × (b3 : _) × (w ≡ the_entry.Canal b1 b2 b3) × ⟦<bool as RoundTrip<'de, R>>⟧.same a1 b1 × ⟦<Option<u16> as RoundTrip<'de, R>>⟧.same a2 b2
          × ⟦<u16 as RoundTrip<'de, R>>⟧.same a3 b3
    ] };

    ghost alike = { λ human. elim [
      | the_entry.Closed ↦ λ w h. variant_alike (λ x. ⟦<Entry as Serialize>⟧.data_of x human) w the_entry.Closed h
          (λ i. Some (unit_variant (codes "Closed")))
      | the_entry.Harbour a1 a2 a3 a4 ↦ λ w h. variant_alike (λ x. ⟦<Entry as Serialize>⟧.data_of x human) w
          (the_entry.Harbour h.0 h.1 h.2 h.3) h.4 (λ i. struct_variant_of (codes "Harbour")
          ((codes "name", (text_alike (string_bytes a1) (string_bytes h.0) h.5 i))
          ∷ ((codes "berths", (⟦<u16 as Serialize>⟧.data_of (h.6 i) human))
          ∷ ((codes "depth", (⟦<i32 as Serialize>⟧.data_of (h.7 i) human))
          ∷ ((
            codes "notes",
            (slice_alike ⟦<String as RoundTrip<'de, R>>⟧.same (λ x. ⟦<String as Serialize>⟧.data_of x human)
                (λ x10 yx10 h10 i. (text_alike (string_bytes x10) (string_bytes yx10) h10 i)) a4.items h.3.items h.8 i),
          ) ∷ [])))))
      | the_entry.Queue a1 a2 ↦ λ w h.
          variant_alike (λ x. ⟦<Entry as Serialize>⟧.data_of x human) w (the_entry.Queue h.0 h.1) h.2
          (λ i. tuple_variant_of (codes "Queue") ((slice_alike ⟦<u16 as RoundTrip<'de, R>>⟧.same (λ x. ⟦<u16 as Serialize>⟧.data_of x human)
          (λ x11 yx11 h11 i. (⟦<u16 as Serialize>⟧.data_of (h11 i) human)) a1.items h.0.items h.3 i) ∷ ((⟦<u8 as Serialize>⟧.data_of (h.4 i) human) ∷ [])))
      | the_entry.Convoy a1 a2 ↦ λ w h. variant_alike (λ x. ⟦<Entry as Serialize>⟧.data_of x human) w (the_entry.Convoy h.0 h.1) h.2
          (λ i. struct_variant_of (codes "Convoy") ((
            codes "ships",
            (slice_alike ⟦<String as RoundTrip<'de, R>>⟧.same (λ x. ⟦<String as Serialize>⟧.data_of x human)
                (λ x12 yx12 h12 i. (text_alike (string_bytes x12) (string_bytes yx12) h12 i)) a1.items h.0.items h.3 i),
          )
          ∷ ((codes "led", (⟦<bool as Serialize>⟧.data_of (h.4 i) human)) ∷ [])))
      | the_entry.Tally a1 a2 ↦ λ w h. variant_alike
          (λ x. ⟦<Entry as Serialize>⟧.data_of x human) w (the_entry.Tally h.0 h.1) h.2
          (λ i. tuple_variant_of (codes "Tally") ((mapping_alike ⟦<String as RoundTrip<'de, R>>⟧.same (λ x. ⟦<String as Serialize>⟧.data_of x human)
          (λ x13 yx13 h13 i. (text_alike (string_bytes x13) (string_bytes yx13) h13 i)) ⟦<u64 as RoundTrip<'de, R>>⟧.same
          (λ x. ⟦<u64 as Serialize>⟧.data_of x human) (λ x14 yx14 h14 i. (⟦<u64 as Serialize>⟧.data_of (h14 i) human)) a1.entries h.0.entries h.3 i)
          ∷ ((⟦<i16 as Serialize>⟧.data_of (h.4 i) human) ∷ [])))
      | the_entry.Shift a1 a2 ↦ λ w h. variant_alike (λ x. ⟦<Entry as Serialize>⟧.data_of x human)
          w (the_entry.Shift h.0 h.1) h.2 (λ i. tuple_variant_of (codes "Shift")
          ((slice_alike ⟦<u8 as RoundTrip<'de, R>>⟧.same (λ x. ⟦<u8 as Serialize>⟧.data_of x human)
          (λ x15 yx15 h15 i. (⟦<u8 as Serialize>⟧.data_of (h15 i) human)) a1.items h.0.items h.3 i)
          ∷ ((slice_alike ⟦<(u8, char) as RoundTrip<'de, R>>⟧.same (λ x. ⟦<(u8, char) as Serialize>⟧.data_of x human)
          (λ x16 yx16 h16 i. (tuple_of ((⟦<u8 as Serialize>⟧.data_of (h16.0 i) human) ∷ ((⟦<char as Serialize>⟧.data_of (h16.1 i) human) ∷ [])))) a2.items
          h.1.items h.4 i) ∷ [])))
      | the_entry.Canal a1 a2 a3 ↦ λ w h. variant_alike (λ x. ⟦<Entry as Serialize>⟧.data_of x human) w
          (the_entry.Canal h.0 h.1 h.2) h.3 (λ i. struct_variant_of (codes "Canal")
          ((codes "locked", (⟦<bool as Serialize>⟧.data_of (h.4 i) human))
          ∷ ((
            codes "width",
            (option_alike ⟦<u16 as RoundTrip<'de, R>>⟧.same (λ x. ⟦<u16 as Serialize>⟧.data_of x human)
                (λ x17 yx17 h17 i. (⟦<u16 as Serialize>⟧.data_of (h17 i) human)) a2 h.1 h.5 i),
          )
          ∷ ((codes "berths", (⟦<u16 as Serialize>⟧.data_of (h.6 i) human)) ∷ []))))
    ] };

    ghost only = { λ s. let names = codes "Closed" ∷ (codes "Harbour"
        ∷ (codes "Queue" ∷ (codes "Convoy" ∷ (codes "Tally" ∷ (codes "Shift" ∷ (codes "Canal" ∷ []))))))
        in elim [
          | the_entry.Closed ↦ λ fits. lowers_then s (Some (unit_variant (codes "Closed"))) (OfVariant names (AtPlace 0 AnyContent)) (λ m. (w : _)
              → (⟦<Entry as Deserialize<'de, R>>⟧.reads s.human R.lends) m w
              → (w ≡ the_entry.Closed)) (bare_row s names (codes "Closed") 0 refl (AtPlace 0 AnyContent) (refl, tt))
              (λ m q w r. variant_both names 0 AnyContent _ _ m q r (λ c a b. b.0))
          | the_entry.Harbour a1 a2 a3 a4 ↦ λ fits. lowers_then s _ _ (λ m. (w : _)
              → (⟦<Entry as Deserialize<'de, R>>⟧.reads s.human R.lends) m w
              → (b1 : _) × (b2 : _) × (b3 : _) × (b4 : _) × (w ≡ the_entry.Harbour b1 b2 b3 b4) × ⟦<String as RoundTrip<'de, R>>⟧.same a1 b1
              × ⟦<u16 as RoundTrip<'de, R>>⟧.same a2 b2 × ⟦<i32 as RoundTrip<'de, R>>⟧.same a3 b3 × ⟦<Vec<String> as RoundTrip<'de, R>>⟧.same a4 b4)
              (struct_variant_row s names (codes "Harbour") 1 refl
              (AtPlace 1 (Content (OfFields (codes "name" ∷ (codes "berths" ∷ (codes "depth" ∷ (codes "notes" ∷ []))))
              (Field (λ j. Only (⟦<String as Deserialize<'de, R>>⟧.reads s.human R.lends) ⟦<String as RoundTrip<'de, R>>⟧.same j a1) ⊥
              (Field (λ j. Only (⟦<u16 as Deserialize<'de, R>>⟧.reads s.human R.lends) ⟦<u16 as RoundTrip<'de, R>>⟧.same j a2) ⊥
              (Field (λ j. Only (⟦<i32 as Deserialize<'de, R>>⟧.reads s.human R.lends) ⟦<i32 as RoundTrip<'de, R>>⟧.same j a3) ⊥
              (Field (λ j. Only (⟦<Vec<String> as Deserialize<'de, R>>⟧.reads s.human R.lends) ⟦<Vec<String> as RoundTrip<'de, R>>⟧.same j a4) ⊥ NoField)))))))
              (codes "name" ∷ (codes "berths" ∷ (codes "depth" ∷ (codes "notes" ∷ [])))) _ _ refl (λ m h. (refl, h))
              (fields_cons s (codes "name") _ _ _ (λ j. Only (⟦<String as Deserialize<'de, R>>⟧.reads s.human R.lends) ⟦<String as RoundTrip<'de, R>>⟧.same j a1)
              ⊥ _ (string_only s (λ w. string_bytes w) (string_bytes a1))
              (fields_cons s (codes "berths") _ _ _ (λ j. Only (⟦<u16 as Deserialize<'de, R>>⟧.reads s.human R.lends) ⟦<u16 as RoundTrip<'de, R>>⟧.same j a2) ⊥ _
              (unsigned_only s 65535 a2) (fields_cons s (codes "depth") _ _ _
              (λ j. Only (⟦<i32 as Deserialize<'de, R>>⟧.reads s.human R.lends) ⟦<i32 as RoundTrip<'de, R>>⟧.same j a3) ⊥ _
              (signed_only s (negsuc 2147483647) (pos 2147483647) a3)
              (fields_cons s (codes "notes") _ _ _ (λ j. Only (⟦<Vec<String> as Deserialize<'de, R>>⟧.reads s.human R.lends)
              ⟦<Vec<String> as RoundTrip<'de, R>>⟧.same j a4) ⊥ _
              (list_only s _ (λ w. w.items) (⟦<String as Deserialize<'de, R>>⟧.reads s.human R.lends) ⟦<String as RoundTrip<'de, R>>⟧.same a4.items
              (slice_row s _ (λ ms. ReadsEach (Only (⟦<String as Deserialize<'de, R>>⟧.reads s.human R.lends) ⟦<String as RoundTrip<'de, R>>⟧.same) ms a4.items)
              (each_row s (λ x. ⟦<String as Serialize>⟧.data_of x s.human) ⟦<String as Serialize>⟧.is_value
              (Only (⟦<String as Deserialize<'de, R>>⟧.reads s.human R.lends) ⟦<String as RoundTrip<'de, R>>⟧.same)
              (λ x1 h1. (string_only s (λ w. string_bytes w) (string_bytes x1))) a4.items fits.3))) (fields_none s))))))
              (λ m q w r. variant_both names 1 _ _ _ m q r (λ c a b. content_fields (codes "name" ∷ (codes "berths" ∷ (codes "depth" ∷ (codes "notes" ∷ [])))) _ _
              _ c a b.5 (λ ks i j. let x = field_only (⟦<String as Deserialize<'de, R>>⟧.reads s.human R.lends) ⟦<String as RoundTrip<'de, R>>⟧.same a1 b.0 _ _ _
              _ (field_only (⟦<u16 as Deserialize<'de, R>>⟧.reads s.human R.lends) ⟦<u16 as RoundTrip<'de, R>>⟧.same a2 b.1 _ _ _ _
              (field_only (⟦<i32 as Deserialize<'de, R>>⟧.reads s.human R.lends) ⟦<i32 as RoundTrip<'de, R>>⟧.same a3 b.2 _ _ _ _
              (last_field (⟦<Vec<String> as Deserialize<'de, R>>⟧.reads s.human R.lends) ⟦<Vec<String> as RoundTrip<'de, R>>⟧.same a4 b.3 _))) ks i j
              in (b.0, b.1, b.2, b.3, b.4, x.0, x.1.0, x.1.1.0, x.1.1.1))))
          | the_entry.Queue a1 a2 ↦ λ fits. lowers_then s _ _ (λ m. (w : _)
              → (⟦<Entry as Deserialize<'de, R>>⟧.reads s.human R.lends) m w
              → (b1 : _) × (b2 : _) × (w ≡ the_entry.Queue b1 b2) × ⟦<Vec<u16> as RoundTrip<'de, R>>⟧.same a1 b1 × ⟦<u8 as RoundTrip<'de, R>>⟧.same a2 b2)
              (tuple_variant_row s names (codes "Queue") 2 refl (AtPlace 2
              (Content (OfRow (AndThen (λ j. Only (⟦<Vec<u16> as Deserialize<'de, R>>⟧.reads s.human R.lends) ⟦<Vec<u16> as RoundTrip<'de, R>>⟧.same j a1)
              (AndThen (λ j. Only (⟦<u8 as Deserialize<'de, R>>⟧.reads s.human R.lends) ⟦<u8 as RoundTrip<'de, R>>⟧.same j a2) NoMore))))) _ _ (λ m h. (refl, h))
              (rows_cons s _ _ (λ j. Only (⟦<Vec<u16> as Deserialize<'de, R>>⟧.reads s.human R.lends) ⟦<Vec<u16> as RoundTrip<'de, R>>⟧.same j a1) _
              (list_only s _ (λ w. w.items) (⟦<u16 as Deserialize<'de, R>>⟧.reads s.human R.lends) ⟦<u16 as RoundTrip<'de, R>>⟧.same a1.items
              (slice_row s _ (λ ms. ReadsEach (Only (⟦<u16 as Deserialize<'de, R>>⟧.reads s.human R.lends) ⟦<u16 as RoundTrip<'de, R>>⟧.same) ms a1.items)
              (each_row s (λ x. ⟦<u16 as Serialize>⟧.data_of x s.human) ⟦<u16 as Serialize>⟧.is_value
              (Only (⟦<u16 as Deserialize<'de, R>>⟧.reads s.human R.lends) ⟦<u16 as RoundTrip<'de, R>>⟧.same) (λ x2 h2. (unsigned_only s 65535 x2)) a1.items
              fits.0))) (rows_cons s _ _ (λ j. Only (⟦<u8 as Deserialize<'de, R>>⟧.reads s.human R.lends) ⟦<u8 as RoundTrip<'de, R>>⟧.same j a2) _
              (byte_only s a2) (rows_none s)))) (λ m q w r. variant_both names 2 _ _ _ m q r
              (λ c a b. content_row _ _ _ c a b.3 (λ ks i j. let x = item_only (⟦<Vec<u16> as Deserialize<'de, R>>⟧.reads s.human R.lends)
              ⟦<Vec<u16> as RoundTrip<'de, R>>⟧.same a1 b.0 _ _ _
              (last_only (⟦<u8 as Deserialize<'de, R>>⟧.reads s.human R.lends) ⟦<u8 as RoundTrip<'de, R>>⟧.same a2 b.1) ks i j in (b.0, b.1, b.2, x.0, x.1))))
          | the_entry.Convoy a1 a2 ↦ λ fits. lowers_then s _ _ (λ m. (w : _) → (⟦<Entry as Deserialize<'de, R>>⟧.reads s.human R.lends) m w
              → (b1 : _) × (b2 : _) × (w ≡ the_entry.Convoy b1 b2) × ⟦<Vec<String> as RoundTrip<'de, R>>⟧.same a1 b1 × ⟦<bool as RoundTrip<'de, R>>⟧.same a2 b2)
              (struct_variant_row s names (codes "Convoy") 3 refl
              (AtPlace 3 (Content (OfFields (codes "ships" ∷ (codes "led" ∷ []))
              (Field (λ j. Only (⟦<Vec<String> as Deserialize<'de, R>>⟧.reads s.human R.lends) ⟦<Vec<String> as RoundTrip<'de, R>>⟧.same j a1) ⊥
              (Field (λ j. Only (⟦<bool as Deserialize<'de, R>>⟧.reads s.human R.lends) ⟦<bool as RoundTrip<'de, R>>⟧.same j a2) ⊥ NoField)))))
              (codes "ships" ∷ (codes "led" ∷ [])) _ _ refl (λ m h. (refl, h))
              (fields_cons s (codes "ships") _ _ _ (λ j. Only (⟦<Vec<String> as Deserialize<'de, R>>⟧.reads s.human R.lends)
              ⟦<Vec<String> as RoundTrip<'de, R>>⟧.same j a1) ⊥ _
              (list_only s _ (λ w. w.items) (⟦<String as Deserialize<'de, R>>⟧.reads s.human R.lends) ⟦<String as RoundTrip<'de, R>>⟧.same a1.items
              (slice_row s _ (λ ms. ReadsEach (Only (⟦<String as Deserialize<'de, R>>⟧.reads s.human R.lends) ⟦<String as RoundTrip<'de, R>>⟧.same) ms a1.items)
              (each_row s (λ x. ⟦<String as Serialize>⟧.data_of x s.human) ⟦<String as Serialize>⟧.is_value
              (Only (⟦<String as Deserialize<'de, R>>⟧.reads s.human R.lends) ⟦<String as RoundTrip<'de, R>>⟧.same)
              (λ x3 h3. (string_only s (λ w. string_bytes w) (string_bytes x3))) a1.items fits.0)))
              (fields_cons s (codes "led") _ _ _ (λ j. Only (⟦<bool as Deserialize<'de, R>>⟧.reads s.human R.lends) ⟦<bool as RoundTrip<'de, R>>⟧.same j a2) ⊥ _
              (truth_only s a2) (fields_none s)))) (λ m q w r. variant_both names 3 _ _ _ m q r
              (λ c a b. content_fields (codes "ships" ∷ (codes "led" ∷ [])) _ _ _ c a b.3
              (λ ks i j. let x = field_only (⟦<Vec<String> as Deserialize<'de, R>>⟧.reads s.human R.lends) ⟦<Vec<String> as RoundTrip<'de, R>>⟧.same a1 b.0 _ _ _
              _ (last_field (⟦<bool as Deserialize<'de, R>>⟧.reads s.human R.lends) ⟦<bool as RoundTrip<'de, R>>⟧.same a2 b.1 _) ks i j
              in (b.0, b.1, b.2, x.0, x.1))))
          | the_entry.Tally a1 a2 ↦ λ fits. lowers_then s _ _ (λ m. (w : _)
              → (⟦<Entry as Deserialize<'de, R>>⟧.reads s.human R.lends) m w
              → (b1 : _) × (b2 : _) × (w ≡ the_entry.Tally b1 b2) × ⟦<BTreeMap<String, u64> as RoundTrip<'de, R>>⟧.same a1 b1
              × ⟦<i16 as RoundTrip<'de, R>>⟧.same a2 b2) (tuple_variant_row s names (codes "Tally") 4 refl
              (AtPlace 4 (Content (OfRow (AndThen (λ j. Only (⟦<BTreeMap<String, u64> as Deserialize<'de, R>>⟧.reads s.human R.lends)
              ⟦<BTreeMap<String, u64> as RoundTrip<'de, R>>⟧.same j a1)
              (AndThen (λ j. Only (⟦<i16 as Deserialize<'de, R>>⟧.reads s.human R.lends) ⟦<i16 as RoundTrip<'de, R>>⟧.same j a2) NoMore))))) _ _
              (λ m h. (refl, h)) (rows_cons s _ _ (λ j. Only (⟦<BTreeMap<String, u64> as Deserialize<'de, R>>⟧.reads s.human R.lends)
              ⟦<BTreeMap<String, u64> as RoundTrip<'de, R>>⟧.same j a1) _
              (entries_only (⟦<String as Deserialize<'de, R>>⟧.reads s.human R.lends) (⟦<u64 as Deserialize<'de, R>>⟧.reads s.human R.lends)
              ⟦<String as RoundTrip<'de, R>>⟧.same ⟦<u64 as RoundTrip<'de, R>>⟧.same s _ (λ w. w.entries) {cmp = ⟦<String as Ord>⟧.cmp}
              (on_total (λ x. string_bytes x) nat_list_cmp_total) (λ x y e. tied (slice_cmp nat_cmp) nat_list_cmp_total (string_bytes x) (string_bytes y) e)
              a1.entries fits.0.1 (pairs_row s (λ x. ⟦<String as Serialize>⟧.data_of x s.human) (λ x. ⟦<u64 as Serialize>⟧.data_of x s.human)
              ⟦<String as Serialize>⟧.is_value ⟦<u64 as Serialize>⟧.is_value
              (Only (⟦<String as Deserialize<'de, R>>⟧.reads s.human R.lends) ⟦<String as RoundTrip<'de, R>>⟧.same)
              (Only (⟦<u64 as Deserialize<'de, R>>⟧.reads s.human R.lends) ⟦<u64 as RoundTrip<'de, R>>⟧.same)
              (λ x4 h4. (string_only s (λ w. string_bytes w) (string_bytes x4))) (λ x5 h5. (unsigned_only s 18446744073709551615 x5)) a1.entries fits.0.0))
              (rows_cons s _ _ (λ j. Only (⟦<i16 as Deserialize<'de, R>>⟧.reads s.human R.lends) ⟦<i16 as RoundTrip<'de, R>>⟧.same j a2) _
              (signed_only s (negsuc 32767) (pos 32767) a2) (rows_none s))))
              (λ m q w r. variant_both names 4 _ _ _ m q r (λ c a b. content_row _ _ _ c a b.3
              (λ ks i j. let x = item_only (⟦<BTreeMap<String, u64> as Deserialize<'de, R>>⟧.reads s.human R.lends)
              ⟦<BTreeMap<String, u64> as RoundTrip<'de, R>>⟧.same a1 b.0 _ _ _
              (last_only (⟦<i16 as Deserialize<'de, R>>⟧.reads s.human R.lends) ⟦<i16 as RoundTrip<'de, R>>⟧.same a2 b.1) ks i j in (b.0, b.1, b.2, x.0, x.1))))
          | the_entry.Shift a1 a2 ↦ λ fits. lowers_then s _ _ (λ m. (w : _) → (⟦<Entry as Deserialize<'de, R>>⟧.reads s.human R.lends) m w
              → (b1 : _) × (b2 : _) × (w ≡ the_entry.Shift b1 b2) × ⟦<Vec<u8> as RoundTrip<'de, R>>⟧.same a1 b1
              × ⟦<Vec<(u8, char)> as RoundTrip<'de, R>>⟧.same a2 b2)
              (tuple_variant_row s names (codes "Shift") 5 refl (AtPlace 5
              (Content (OfRow (AndThen (λ j. Only (⟦<Vec<u8> as Deserialize<'de, R>>⟧.reads s.human R.lends) ⟦<Vec<u8> as RoundTrip<'de, R>>⟧.same j a1)
              (AndThen (λ j. Only (⟦<Vec<(u8, char)> as Deserialize<'de, R>>⟧.reads s.human R.lends) ⟦<Vec<(u8, char)> as RoundTrip<'de, R>>⟧.same j a2)
              NoMore))))) _ _ (λ m h. (refl, h)) (rows_cons s _ _
              (λ j. Only (⟦<Vec<u8> as Deserialize<'de, R>>⟧.reads s.human R.lends) ⟦<Vec<u8> as RoundTrip<'de, R>>⟧.same j a1) _
              (list_only s _ (λ w. w.items) (⟦<u8 as Deserialize<'de, R>>⟧.reads s.human R.lends) ⟦<u8 as RoundTrip<'de, R>>⟧.same a1.items
              (slice_row s _ (λ ms. ReadsEach (Only (⟦<u8 as Deserialize<'de, R>>⟧.reads s.human R.lends) ⟦<u8 as RoundTrip<'de, R>>⟧.same) ms a1.items)
              (each_row s (λ x. ⟦<u8 as Serialize>⟧.data_of x s.human) ⟦<u8 as Serialize>⟧.is_value
              (Only (⟦<u8 as Deserialize<'de, R>>⟧.reads s.human R.lends) ⟦<u8 as RoundTrip<'de, R>>⟧.same) (λ x6 h6. (byte_only s x6)) a1.items fits.0)))
              (rows_cons s _ _ (λ j. Only (⟦<Vec<(u8, char)> as Deserialize<'de, R>>⟧.reads s.human R.lends) ⟦<Vec<(u8, char)> as RoundTrip<'de, R>>⟧.same j a2) _
              (list_only s _ (λ w. w.items) (⟦<(u8, char) as Deserialize<'de, R>>⟧.reads s.human R.lends) ⟦<(u8, char) as RoundTrip<'de, R>>⟧.same a2.items
              (slice_row s _ (λ ms. ReadsEach (Only (⟦<(u8, char) as Deserialize<'de, R>>⟧.reads s.human R.lends) ⟦<(u8, char) as RoundTrip<'de, R>>⟧.same) ms
              a2.items) (each_row s (λ x. ⟦<(u8, char) as Serialize>⟧.data_of x s.human) ⟦<(u8, char) as Serialize>⟧.is_value
              (Only (⟦<(u8, char) as Deserialize<'de, R>>⟧.reads s.human R.lends) ⟦<(u8, char) as RoundTrip<'de, R>>⟧.same)
              (λ x7 h7. (lowers_then s _ _ (λ j. Only (⟦<(u8, char) as Deserialize<'de, R>>⟧.reads s.human R.lends) ⟦<(u8, char) as RoundTrip<'de, R>>⟧.same j x7)
              (tuple_row s _ _ (rows_cons s _ _ (λ j. Only (⟦<u8 as Deserialize<'de, R>>⟧.reads s.human R.lends) ⟦<u8 as RoundTrip<'de, R>>⟧.same j x7.0) _
              (byte_only s x7.0) (rows_cons s _ _ (λ j. Only (⟦<char as Deserialize<'de, R>>⟧.reads s.human R.lends) ⟦<char as RoundTrip<'de, R>>⟧.same j x7.1) _
              (char_only s x7.1 h7.1) (rows_none s)))) (λ m q w r. row_both _ _ _ m q r
              (item_only (⟦<u8 as Deserialize<'de, R>>⟧.reads s.human R.lends) ⟦<u8 as RoundTrip<'de, R>>⟧.same x7.0 w.0 _ _ _
              (last_only (⟦<char as Deserialize<'de, R>>⟧.reads s.human R.lends) ⟦<char as RoundTrip<'de, R>>⟧.same x7.1 w.1))))) a2.items fits.1)))
              (rows_none s)))) (λ m q w r. variant_both names 5 _ _ _ m q r
              (λ c a b. content_row _ _ _ c a b.3 (λ ks i j. let x = item_only (⟦<Vec<u8> as Deserialize<'de, R>>⟧.reads s.human R.lends)
              ⟦<Vec<u8> as RoundTrip<'de, R>>⟧.same a1 b.0 _ _ _
              (last_only (⟦<Vec<(u8, char)> as Deserialize<'de, R>>⟧.reads s.human R.lends) ⟦<Vec<(u8, char)> as RoundTrip<'de, R>>⟧.same a2 b.1) ks i j
              in (b.0, b.1, b.2, x.0, x.1))))
          | the_entry.Canal a1 a2 a3 ↦ λ fits. lowers_then s _ _ (λ m. (w : _)
              → (⟦<Entry as Deserialize<'de, R>>⟧.reads s.human R.lends) m w
              → (b1 : _) × (b2 : _) × (b3 : _) × (w ≡ the_entry.Canal b1 b2 b3) × ⟦<bool as RoundTrip<'de, R>>⟧.same a1 b1
              × ⟦<Option<u16> as RoundTrip<'de, R>>⟧.same a2 b2 × ⟦<u16 as RoundTrip<'de, R>>⟧.same a3 b3)
              (struct_variant_row s names (codes "Canal") 6 refl
              (AtPlace 6 (Content (OfFields (codes "locked" ∷ (codes "width" ∷ (codes "berths" ∷ [])))
              (Field (λ j. Only (⟦<bool as Deserialize<'de, R>>⟧.reads s.human R.lends) ⟦<bool as RoundTrip<'de, R>>⟧.same j a1) ⊥
              (Field (λ j. Only (⟦<Option<u16> as Deserialize<'de, R>>⟧.reads s.human R.lends) ⟦<Option<u16> as RoundTrip<'de, R>>⟧.same j a2) ⊥
              (Field (λ j. Only (⟦<u16 as Deserialize<'de, R>>⟧.reads s.human R.lends) ⟦<u16 as RoundTrip<'de, R>>⟧.same j a3) ⊥ NoField))))))
              (codes "locked" ∷ (codes "width" ∷ (codes "berths" ∷ []))) _ _ refl (λ m h. (refl, h))
              (fields_cons s (codes "locked") _ _ _ (λ j. Only (⟦<bool as Deserialize<'de, R>>⟧.reads s.human R.lends) ⟦<bool as RoundTrip<'de, R>>⟧.same j a1) ⊥
              _ (truth_only s a1) (fields_cons s (codes "width") _ _ _
              (λ j. Only (⟦<Option<u16> as Deserialize<'de, R>>⟧.reads s.human R.lends) ⟦<Option<u16> as RoundTrip<'de, R>>⟧.same j a2) ⊥ _
              (option_only s _ (⟦<u16 as Deserialize<'de, R>>⟧.reads s.human R.lends) ⟦<u16 as RoundTrip<'de, R>>⟧.same a2
              (option_row s (λ x. ⟦<u16 as Serialize>⟧.data_of x s.human) ⟦<u16 as Serialize>⟧.is_value
              (Only (⟦<u16 as Deserialize<'de, R>>⟧.reads s.human R.lends) ⟦<u16 as RoundTrip<'de, R>>⟧.same) (λ x9. pos_other s x9)
              (λ x8 h8. (unsigned_only s 65535 x8)) a2 fits.1)) (fields_cons s (codes "berths") _ _ _
              (λ j. Only (⟦<u16 as Deserialize<'de, R>>⟧.reads s.human R.lends) ⟦<u16 as RoundTrip<'de, R>>⟧.same j a3) ⊥ _ (unsigned_only s 65535 a3)
              (fields_none s))))) (λ m q w r. variant_both names 6 _ _ _ m q r
              (λ c a b. content_fields (codes "locked" ∷ (codes "width" ∷ (codes "berths" ∷ []))) _ _ _ c a b.4
              (λ ks i j. let x = field_only (⟦<bool as Deserialize<'de, R>>⟧.reads s.human R.lends) ⟦<bool as RoundTrip<'de, R>>⟧.same a1 b.0 _ _ _ _
              (field_only (⟦<Option<u16> as Deserialize<'de, R>>⟧.reads s.human R.lends) ⟦<Option<u16> as RoundTrip<'de, R>>⟧.same a2 b.1 _ _ _ _
              (last_field (⟦<u16 as Deserialize<'de, R>>⟧.reads s.human R.lends) ⟦<u16 as RoundTrip<'de, R>>⟧.same a3 b.2 _)) ks i j
              in (b.0, b.1, b.2, b.3, x.0, x.1.0, x.1.1))))
        ] };
}

impl NeverNil for Entry {
    ghost never_nil = { λ s. elim [
      | the_entry.Closed ↦ bare_other s (codes "Closed")
      | the_entry.Harbour a1 a2 a3 a4 ↦ struct_variant_other s
          (codes "Harbour") _
      | the_entry.Queue a1 a2 ↦ tuple_variant_other s (codes "Queue") _
      | the_entry.Convoy a1 a2 ↦ struct_variant_other s
          (codes "Convoy") _
      | the_entry.Tally a1 a2 ↦ tuple_variant_other s (codes "Tally") _
      | the_entry.Shift a1 a2 ↦ tuple_variant_other s (codes "Shift")
          _
      | the_entry.Canal a1 a2 a3 ↦ struct_variant_other s (codes "Canal") _
    ] };
}

impl<'de, R: ReadSlice<'de>> EndsInside<'de, R> for Entry {
    ghost ends_inside = { enum_inside _ _ (
      no_content_inside,
      (
        with_content_inside _ (fields_inside _ _ _ (
          string_inside,
          (
            number_inside,
            (
              number_inside,
              (
                (each_inside ⟦<String as Deserialize<'de, R>>⟧.reads ⟦<String as Deserialize<'de, R>>⟧.refuses string_inside),
                tt,
              ),
            ),
          ),
        )),
        (
          with_content_inside _ (tuple_inside (part_of ⟦<Vec<u16> as Deserialize<'de, R>>⟧.reads ⟦<Vec<u16> as Deserialize<'de, R>>⟧.refuses
              ∷ (part_of ⟦<u8 as Deserialize<'de, R>>⟧.reads ⟦<u8 as Deserialize<'de, R>>⟧.refuses ∷ []))
              ((each_inside ⟦<u16 as Deserialize<'de, R>>⟧.reads ⟦<u16 as Deserialize<'de, R>>⟧.refuses number_inside), (number_inside, tt))),
          (
            with_content_inside _ (fields_inside _ _ _ (
              (each_inside ⟦<String as Deserialize<'de, R>>⟧.reads ⟦<String as Deserialize<'de, R>>⟧.refuses
                  string_inside),
              (kind_inside, tt),
            )),
            (
              with_content_inside _
                  (tuple_inside (part_of ⟦<BTreeMap<String, u64> as Deserialize<'de, R>>⟧.reads ⟦<BTreeMap<String, u64> as Deserialize<'de, R>>⟧.refuses
                  ∷ (part_of ⟦<i16 as Deserialize<'de, R>>⟧.reads ⟦<i16 as Deserialize<'de, R>>⟧.refuses ∷ [])) (
                    (map_inside ⟦<String as Deserialize<'de, R>>⟧.reads ⟦<u64 as Deserialize<'de, R>>⟧.reads ⟦<String as Deserialize<'de, R>>⟧.refuses
                        ⟦<u64 as Deserialize<'de, R>>⟧.refuses string_inside number_inside),
                    (number_inside, tt),
                  )),
              (
                with_content_inside _ (tuple_inside (part_of ⟦<Vec<u8> as Deserialize<'de, R>>⟧.reads ⟦<Vec<u8> as Deserialize<'de, R>>⟧.refuses
                    ∷ (part_of ⟦<Vec<(u8, char)> as Deserialize<'de, R>>⟧.reads ⟦<Vec<(u8, char)> as Deserialize<'de, R>>⟧.refuses ∷ [])) (
                      (each_inside ⟦<u8 as Deserialize<'de, R>>⟧.reads ⟦<u8 as Deserialize<'de, R>>⟧.refuses number_inside),
                      (
                        (each_inside ⟦<(u8, char) as Deserialize<'de, R>>⟧.reads ⟦<(u8, char) as Deserialize<'de, R>>⟧.refuses
                            (tuple_inside (part_of ⟦<u8 as Deserialize<'de, R>>⟧.reads ⟦<u8 as Deserialize<'de, R>>⟧.refuses
                            ∷ (part_of ⟦<char as Deserialize<'de, R>>⟧.reads ⟦<char as Deserialize<'de, R>>⟧.refuses ∷ [])) (number_inside, (char_inside, tt)))),
                        tt,
                      ),
                    )),
                (
                  with_content_inside _ (fields_inside _ _ _ (
                    kind_inside,
                    ((option_inside ⟦<u16 as Deserialize<'de, R>>⟧.refuses number_inside), (number_inside, tt)),
                  )),
                  tt,
                ),
              ),
            ),
          ),
        ),
      ),
    ) };
}
