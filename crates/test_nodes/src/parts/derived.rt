//! How the types of parts.rt are written and read. Written by tools/derive.py.
//!
//! Sum of Width: bfe783f8.
//! Sum of Id: a7ff1a9b.
//! Sum of Frame: 1f027444.
//! Sum of Doc: 19d0d12a.
ghost use Rattle.rmp_decode.specs.Arrays.{Exactly};
ghost use Rattle.rmp_decode.specs.EnumRefusing.{RefusesEnum, with_content};
ghost use Rattle.rmp_decode.specs.Law.{Lawful};
ghost use Rattle.rmp_decode.specs.Read.{IsRaw};
ghost use Rattle.rmp_decode.specs.Rows.{AndThen, NoMore, ReadsEach};
ghost use Rattle.rmp_decode.specs.Seq.{OfRow};
ghost use Rattle.rmp_decode.specs.Variants.{OfVariant, Case, NoCase, Content};
ghost use Rattle.rmp_encode.specs.Refusals.{OfParts};
ghost use Rattle.rmp_encode.specs.Sizes.{one_of};
ghost use Rattle.rmp_encode.specs.Trees.{wrapped_of, newtype_variant_of, forces_slices, forces_all};
ghost use Rattle.rmp_recursive.specs.Parts.{Row};
ghost use Rattle.rmp_round_trip.specs.AlikeData.{array_alike, mapping_alike, option_alike, text_alike, variant_alike};
ghost use Rattle.rmp_round_trip.specs.AlikeOrder.{tied};
ghost use Rattle.rmp_round_trip.specs.LeafRounds.{byte_row, unsigned_row_32, unsigned_row_64, string_row, pos_other};
ghost use Rattle.rmp_round_trip.specs.MapRounds.{mapping_some, map_row, pairs_row};
ghost use Rattle.rmp_round_trip.specs.OnlyFields.{AtPlace, content_only, variant_both};
ghost use Rattle.rmp_round_trip.specs.OnlyLeaves.{byte_only, unsigned_only, string_only};
ghost use Rattle.rmp_round_trip.specs.OnlyMaps.{entries_only};
ghost use Rattle.rmp_round_trip.specs.OnlyRows.{array_only, lowers_then, option_only};
ghost use Rattle.rmp_round_trip.specs.RoundTrip.{Only};
ghost use Rattle.rmp_round_trip.specs.Rounds.{each_some, each_row, rows_map, option_some, option_row, tuple_some, tuple_row};
ghost use Rattle.rmp_round_trip.specs.VariantRounds.{newtype_some, newtype_variant_some, newtype_row};
ghost use Rattle.rmp_round_trip.specs.VariantRounds.{newtype_variant_row, newtype_other, newtype_variant_other};
ghost use Rattle.rmp_wire.specs.Msg.{Msg};
ghost use Rattle.std.proofs.Common.{refl};
ghost use Rattle.std.proofs.lemmas.Cmp.{on_total, nat_list_cmp_total};
ghost use Rattle.std.specs.Cmp.Lexicographic.{slice_cmp};
ghost use Rattle.std.specs.Ordering.{nat_cmp};
ghost use Rattle.std.specs.Prelude.{Bool, List, Option, String, ℕ};
ghost use Rattle.std.specs.Prelude.{◌≡◌, ◌∷◌, [], None, Some, codes, string_bytes};
ghost use Rattle.std.specs.declared.alloc.Global.{Global};
ghost use Rattle.std.specs.declared.collections.BTreeMap.{BTreeMap};
ghost use Rattle.test_nodes.specs.DocLevels.{IsDoc, doc_data, doc_fits, DocFramedRead};
ghost use Rattle.test_nodes.specs.DocRounds.{SameDoc, doc_some, doc_round, doc_only, doc_other};
ghost use Rattle.test_nodes.specs.FrameLevels.{IsFrame, frame_data, frame_fits};
ghost use Rattle.test_nodes.specs.FrameRounds.{SameFrame, frame_some, frame_round, frame_only, frame_other};
ghost use Rattle.test_nodes.specs.declared.parts.Id.{Id as TheId};
ghost use Rattle.test_nodes.specs.declared.parts.Width.TheVariants as the_width;
ghost use Rattle.test_nodes.specs.declared.parts.Width.{Width as TheWidth};

use super::{BTreeMap, Doc, Frame, Id, VecDeque, Width};
use rmp_decode::{Deserialize, Deserializer, ReadContent, ReadPlaces, Slices};
use rmp_encode::{Serialize, Serializer};
use rmp_round_trip::{NeverNil, RoundTrip};
use rmp_wire::config::SerializerConfig;
use rmp_wire::{ReadSlice, Sink, Source};

// How leaves are read. A function that calls itself may have no bound that names a lifetime, so it has this one, and is called with `Slices`.
trait ReadLeaves<R: Source> {
    fn read_string<C: SerializerConfig>(
        de: &mut Deserializer<R, C>,
    ) -> Result<String, rmp_decode::Error>
        ensures law { Lawful R.Source (λ m v. IsRaw m (string_bytes v)) de.old de.new result };
}

impl<'de, R: ReadSlice<'de>> ReadLeaves<R> for Slices<'de> {
    fn read_string<C: SerializerConfig>(
        de: &mut Deserializer<R, C>,
    ) -> Result<String, rmp_decode::Error> {
        Deserialize::deserialize(de)
    }
}

// How the parts of a `Frame` are read that are other types.
trait FrameParts<R: Source> {
    ghost reads_of: { Bool → ((Msg → TheId → Type 0) × (Msg → TheWidth → Type 0) × (Msg → (List (ℕ)) → Type 0) × (Msg
        → (BTreeMap (String Global) (ℕ) Global) → Type 0) × (Msg → (Option (TheWidth)) → Type 0)) };

    fn read_id<C: SerializerConfig>(de: &mut Deserializer<R, C>) -> Result<Id, rmp_decode::Error>
        ensures law { Lawful R.Source (λ m v. (reads_of C.human).0 m v) de.old de.new result };

    fn read_width<C: SerializerConfig>(
        de: &mut Deserializer<R, C>,
    ) -> Result<Width, rmp_decode::Error>
        ensures law { Lawful R.Source (λ m v. (reads_of C.human).1 m v) de.old de.new result };

    fn read_u8_16<C: SerializerConfig>(
        de: &mut Deserializer<R, C>,
    ) -> Result<[u8; 16], rmp_decode::Error>
        ensures law { Lawful R.Source (λ m v. (reads_of C.human).2 m v) de.old de.new result };

    fn read_btreemap_string_u64<C: SerializerConfig>(
        de: &mut Deserializer<R, C>,
    ) -> Result<BTreeMap<String, u64>, rmp_decode::Error>
        ensures law { Lawful R.Source (λ m v. (reads_of C.human).3 m v) de.old de.new result };

    fn read_option_width<C: SerializerConfig>(
        de: &mut Deserializer<R, C>,
    ) -> Result<Option<Width>, rmp_decode::Error>
        ensures law { Lawful R.Source (λ m v. (reads_of C.human).4 m v) de.old de.new result };
}

impl<'de, R: ReadSlice<'de>> FrameParts<R> for Slices<'de> {
    ghost reads_of = { λ human. (
      ⟦<Id as Deserialize<'de, R>>⟧.reads human R.lends,
      ⟦<Width as Deserialize<'de, R>>⟧.reads human R.lends,
      ⟦<[u8; 16] as Deserialize<'de, R>>⟧.reads human R.lends,
      ⟦<BTreeMap<String, u64> as Deserialize<'de, R>>⟧.reads human R.lends,
      ⟦<Option<Width> as Deserialize<'de, R>>⟧.reads human R.lends,
    ) };

    fn read_id<C: SerializerConfig>(de: &mut Deserializer<R, C>) -> Result<Id, rmp_decode::Error> {
        Deserialize::deserialize(de)
    }

    fn read_width<C: SerializerConfig>(
        de: &mut Deserializer<R, C>,
    ) -> Result<Width, rmp_decode::Error> {
        Deserialize::deserialize(de)
    }

    fn read_u8_16<C: SerializerConfig>(
        de: &mut Deserializer<R, C>,
    ) -> Result<[u8; 16], rmp_decode::Error> {
        Deserialize::deserialize(de)
    }

    fn read_btreemap_string_u64<C: SerializerConfig>(
        de: &mut Deserializer<R, C>,
    ) -> Result<BTreeMap<String, u64>, rmp_decode::Error> {
        Deserialize::deserialize(de)
    }

    fn read_option_width<C: SerializerConfig>(
        de: &mut Deserializer<R, C>,
    ) -> Result<Option<Width>, rmp_decode::Error> {
        Deserialize::deserialize(de)
    }
}

// How the parts of a `Doc` are read that are other types.
trait DocParts<R: Source> {
    ghost reads_of: { Bool → ((Msg → TheWidth → Type 0) × (Msg → TheId → Type 0)) };

    fn read_width<C: SerializerConfig>(
        de: &mut Deserializer<R, C>,
    ) -> Result<Width, rmp_decode::Error>
        ensures law { Lawful R.Source (λ m v. (reads_of C.human).0 m v) de.old de.new result };

    fn read_id<C: SerializerConfig>(de: &mut Deserializer<R, C>) -> Result<Id, rmp_decode::Error>
        ensures law { Lawful R.Source (λ m v. (reads_of C.human).1 m v) de.old de.new result };
}

impl<'de, R: ReadSlice<'de>> DocParts<R> for Slices<'de> {
    ghost reads_of = { λ human. (⟦<Width as Deserialize<'de, R>>⟧.reads human R.lends, ⟦<Id as Deserialize<'de, R>>⟧.reads human R.lends) };

    fn read_width<C: SerializerConfig>(
        de: &mut Deserializer<R, C>,
    ) -> Result<Width, rmp_decode::Error> {
        Deserialize::deserialize(de)
    }

    fn read_id<C: SerializerConfig>(de: &mut Deserializer<R, C>) -> Result<Id, rmp_decode::Error> {
        Deserialize::deserialize(de)
    }
}

impl Serialize for Frame {
    ghost data_of = { λ v human. (frame_data (
      (λ x. ⟦<Id as Serialize>⟧.data_of x human),
      (λ x. ⟦<Width as Serialize>⟧.data_of x human),
      (λ x. ⟦<[u8; 16] as Serialize>⟧.data_of x human),
      (λ x. ⟦<BTreeMap<String, u64> as Serialize>⟧.data_of x human),
      (λ x. ⟦<Option<Width> as Serialize>⟧.data_of x human),
    )) v };

    ghost is_value = { λ v. (frame_fits (
      ⟦<Id as Serialize>⟧.is_value,
      ⟦<Width as Serialize>⟧.is_value,
      ⟦<[u8; 16] as Serialize>⟧.is_value,
      ⟦<BTreeMap<String, u64> as Serialize>⟧.is_value,
      ⟦<Option<Width> as Serialize>⟧.is_value,
    )) v };

    ghost takes_memory = { λ s. one_of (⟦<Id as Serialize>⟧.takes_memory s
        ∷ (⟦<Width as Serialize>⟧.takes_memory s ∷ (⟦<[u8; 16] as Serialize>⟧.takes_memory s
        ∷ (⟦<BTreeMap<String, u64> as Serialize>⟧.takes_memory s ∷ (⟦<Option<Width> as Serialize>⟧.takes_memory s ∷ []))))) };

    #[cycle(frame_writing)]
    fn serialize<W: Sink, C: SerializerConfig>(
        &self,
        se: &mut Serializer<W, C>,
    ) -> Result<(), rmp_encode::Error> {
        let mut fields = se.serialize_struct("Frame", 6)?;
        fields.serialize_field("id", &self.id)?;
        fields.serialize_field("width", &self.width)?;
        fields.serialize_field("hash", &self.hash)?;
        fields.serialize_field("counts", &self.counts)?;
        fields.serialize_field("least", &self.least)?;
        fields.serialize_field("frames", &self.frames)?;
        fields.end()
    }

    #[tactic(auto, using(crate::proofs::FrameLevels::frame_no_byte))]
    fn as_u8(&self, _human: bool) -> Option<u8> {
        None
    }
}

// Reads a `Frame`.
#[cycle(frame_reading)]
fn read_frame<R: Source, C: SerializerConfig, P: ReadPlaces<R> + FrameParts<R>>(
    de: &mut Deserializer<R, C>,
) -> Result<Frame, rmp_decode::Error>
    ensures law { Lawful R.Source (IsFrame (P.reads_of C.human)) de.old de.new result }
{
    let mut fields = match de.deserialize_struct(
        "Frame",
        &["id", "width", "hash", "counts", "least", "frames"],
    ) {
        Ok(fields) => fields,
        Err(e) => return Err(e),
    };
    let mut slot0: Option<Id> = None;
    let mut slot1: Option<Width> = None;
    let mut slot2: Option<[u8; 16]> = None;
    let mut slot3: Option<BTreeMap<String, u64>> = None;
    let mut slot4: Option<Option<Width>> = None;
    let mut slot5: Option<VecDeque<Frame>> = None;
    loop {
        match fields.next_field_by::<P>() {
            Ok(Some(0)) => match fields.next_value_with(
                |de: &mut Deserializer<R, C>| -> Result<Id, rmp_decode::Error>
                    ensures law { Lawful R.Source (λ m v. (P.reads_of C.human).0 m v) de.old de.new result }
                { P::read_id::<C>(de) },
            ) {
                Ok(value) => slot0 = Some(value),
                Err(e) => return Err(e),
            },
            Ok(Some(1)) => match fields.next_value_with(
                |de: &mut Deserializer<R, C>| -> Result<Width, rmp_decode::Error>
                    ensures law { Lawful R.Source (λ m v. (P.reads_of C.human).1 m v) de.old de.new result }
                { P::read_width::<C>(de) },
            ) {
                Ok(value) => slot1 = Some(value),
                Err(e) => return Err(e),
            },
            Ok(Some(2)) => match fields.next_value_with(
                |de: &mut Deserializer<R, C>| -> Result<[u8; 16], rmp_decode::Error>
                    ensures law { Lawful R.Source (λ m v. (P.reads_of C.human).2 m v) de.old de.new result }
                { P::read_u8_16::<C>(de) },
            ) {
                Ok(value) => slot2 = Some(value),
                Err(e) => return Err(e),
            },
            Ok(Some(3)) => match fields.next_value_with(
                |de: &mut Deserializer<R, C>| -> Result<BTreeMap<String, u64>, rmp_decode::Error>
                    ensures law { Lawful R.Source (λ m v. (P.reads_of C.human).3 m v) de.old de.new result }
                { P::read_btreemap_string_u64::<C>(de) },
            ) {
                Ok(value) => slot3 = Some(value),
                Err(e) => return Err(e),
            },
            Ok(Some(4)) => match fields.next_value_with(
                |de: &mut Deserializer<R, C>| -> Result<Option<Width>, rmp_decode::Error>
                    ensures law { Lawful R.Source (λ m v. (P.reads_of C.human).4 m v) de.old de.new result }
                { P::read_option_width::<C>(de) },
            ) {
                Ok(value) => slot4 = Some(value),
                Err(e) => return Err(e),
            },
            Ok(Some(_)) => match fields.next_value_with(
                |de: &mut Deserializer<R, C>| -> Result<VecDeque<Frame>, rmp_decode::Error>
                    ensures law { Lawful R.Source (λ m v. Row (IsFrame (P.reads_of C.human)) m v.items) de.old de.new result }
                { read_frame_queue::<R, C, P>(de) },
            ) {
                Ok(value) => slot5 = Some(value),
                Err(e) => return Err(e),
            },
            Ok(None) => break,
            Err(e) => return Err(e),
        }
    }
    let value0 = match fields.given_or("id", slot0, None) {
        Ok(value) => value,
        Err(e) => return Err(e),
    };
    let value1 = match fields.given_or("width", slot1, None) {
        Ok(value) => value,
        Err(e) => return Err(e),
    };
    let value2 = match fields.given_or("hash", slot2, None) {
        Ok(value) => value,
        Err(e) => return Err(e),
    };
    let value3 = match fields.given_or("counts", slot3, None) {
        Ok(value) => value,
        Err(e) => return Err(e),
    };
    let value4 = match fields.given_or("least", slot4, Some(None)) {
        Ok(value) => value,
        Err(e) => return Err(e),
    };
    let value5 = match fields.given_or("frames", slot5, None) {
        Ok(value) => value,
        Err(e) => return Err(e),
    };
    match fields.end() {
        Ok(()) => Ok(Frame {
            id: value0,
            width: value1,
            hash: value2,
            counts: value3,
            least: value4,
            frames: value5,
        }),
        Err(e) => Err(e),
    }
}

// Reads a queue of them.
#[cycle(frame_reading)]
fn read_frame_queue<R: Source, C: SerializerConfig, P: ReadPlaces<R> + FrameParts<R>>(
    de: &mut Deserializer<R, C>,
) -> Result<VecDeque<Frame>, rmp_decode::Error>
    ensures law { Lawful R.Source (λ m v. Row (IsFrame (P.reads_of C.human)) m v.items) de.old de.new result }
{
    let mut items = VecDeque::new(de.alloc());
    let mut seq = de.deserialize_seq()?;
    while let Some(item) = seq.next_element_with(
        |de: &mut Deserializer<R, C>| -> Result<Frame, rmp_decode::Error>
            ensures law { Lawful R.Source (λ m v. (IsFrame (P.reads_of C.human)) m v) de.old de.new result }
        { read_frame::<R, C, P>(de) },
    )? {
        items.push_back(item)?;
    }
    seq.end()?;
    Ok(items)
}

impl<'de, R: ReadSlice<'de>> Deserialize<'de, R> for Frame {
    ghost reads = { λ human lends. (IsFrame (
      ⟦<Id as Deserialize<'de, R>>⟧.reads human lends,
      ⟦<Width as Deserialize<'de, R>>⟧.reads human lends,
      ⟦<[u8; 16] as Deserialize<'de, R>>⟧.reads human lends,
      ⟦<BTreeMap<String, u64> as Deserialize<'de, R>>⟧.reads human lends,
      ⟦<Option<Width> as Deserialize<'de, R>>⟧.reads human lends,
    )) };

    ghost absent = { None };

    fn deserialize<C: SerializerConfig>(
        de: &mut Deserializer<R, C>,
    ) -> Result<Frame, rmp_decode::Error> {
        read_frame::<R, C, Slices<'de>>(de)
    }

    fn missing() -> Option<Frame> {
        None
    }
}

impl<'de, R: ReadSlice<'de>> RoundTrip<'de, R> for Frame {
    ghost use Rattle.test_nodes.specs.contracts.parts.derived.IdRoundTrip.TheImpl.Laws as id_rounds;
    ghost use Rattle.test_nodes.specs.contracts.parts.derived.WidthNeverNil.TheImpl.Laws as width_other;
    ghost use Rattle.test_nodes.specs.contracts.parts.derived.WidthRoundTrip.TheImpl.Laws as width_rounds;
    ghost use mir.Syntax.{given};

    ghost has_data = { λ human v. (frame_some (
      (λ x. ⟦<Id as Serialize>⟧.data_of x human),
      (λ x. ⟦<Width as Serialize>⟧.data_of x human),
      (λ x. ⟦<[u8; 16] as Serialize>⟧.data_of x human),
      (λ x. ⟦<BTreeMap<String, u64> as Serialize>⟧.data_of x human),
      (λ x. ⟦<Option<Width> as Serialize>⟧.data_of x human),
    )) (
      (λ x. (id_rounds.has_data-law R.row R.ReadSlice.own (given 0) R.Source (given 0) human x)),
      (λ x. (width_rounds.has_data-law R.row R.ReadSlice.own (given 0) R.Source (given 0) human x)),
      (λ x. (tuple_some _ (each_some (λ x. ⟦<u8 as Serialize>⟧.data_of x human) (λ x3. refl) x))),
      (λ x. (mapping_some (λ x. ⟦<String as Serialize>⟧.data_of x human) (λ x. ⟦<u64 as Serialize>⟧.data_of x human) (λ x4. refl) (λ x4. refl)
          x.entries)),
      (λ x. (option_some (λ x. ⟦<Width as Serialize>⟧.data_of x human)
          (λ x5. (width_rounds.has_data-law R.row R.ReadSlice.own (given 0) R.Source (given 0) human x5)) x)),
    ) v };

    ghost round = { λ lent s v fits. (frame_round s (
      ⟦<Id as Deserialize<'de, R>>⟧.reads s.human R.lends,
      ⟦<Width as Deserialize<'de, R>>⟧.reads s.human
          R.lends,
      ⟦<[u8; 16] as Deserialize<'de, R>>⟧.reads s.human R.lends,
      ⟦<BTreeMap<String, u64> as Deserialize<'de, R>>⟧.reads s.human R.lends,
      ⟦<Option<Width> as Deserialize<'de, R>>⟧.reads s.human R.lends,
    ) (
      (λ x. ⟦<Id as Serialize>⟧.data_of x s.human),
      (λ x. ⟦<Width as Serialize>⟧.data_of x s.human),
      (λ x. ⟦<[u8; 16] as Serialize>⟧.data_of x s.human),
      (λ x. ⟦<BTreeMap<String, u64> as Serialize>⟧.data_of x s.human),
      (λ x. ⟦<Option<Width> as Serialize>⟧.data_of x s.human),
    ) (
      ⟦<Id as Serialize>⟧.is_value,
      ⟦<Width as Serialize>⟧.is_value,
      ⟦<[u8; 16] as Serialize>⟧.is_value,
      ⟦<BTreeMap<String, u64> as Serialize>⟧.is_value,
      ⟦<Option<Width> as Serialize>⟧.is_value,
    )) (
      (λ x h. (id_rounds.round-law R.row R.ReadSlice.own (given 0) R.Source (given 0) (λ e. cc) s x h)),
      (λ x h. (width_rounds.round-law R.row R.ReadSlice.own (given 0) R.Source (given 0) (λ e. cc) s x h)),
      (λ x h. (tuple_row s _ (Exactly 16 (⟦<u8 as Deserialize<'de, R>>⟧.reads s.human R.lends) x)
          (rows_map s _ _ _ (λ ms each. (h.0, each)) (each_row s (λ x. ⟦<u8 as Serialize>⟧.data_of x s.human) ⟦<u8 as Serialize>⟧.is_value
          (⟦<u8 as Deserialize<'de, R>>⟧.reads s.human R.lends) (λ x7 h7. (byte_row s x7 h7)) x h.1)))),
      (λ x h. (map_row s (λ x. ⟦<String as Serialize>⟧.data_of x s.human) (λ x. ⟦<u64 as Serialize>⟧.data_of x s.human) ⟦<String as Serialize>⟧.is_value
          ⟦<u64 as Serialize>⟧.is_value (⟦<String as Deserialize<'de, R>>⟧.reads s.human R.lends) (⟦<u64 as Deserialize<'de, R>>⟧.reads s.human R.lends)
          (λ x8 h8. (string_row s (string_bytes x8))) (λ x9 h9. (unsigned_row_64 s x9 h9)) (on_total (λ x. string_bytes x) nat_list_cmp_total) x.entries h.1
          h.0)),
      (λ x h. (option_row s (λ x. ⟦<Width as Serialize>⟧.data_of x s.human) ⟦<Width as Serialize>⟧.is_value
          (⟦<Width as Deserialize<'de, R>>⟧.reads s.human R.lends) (λ x11. width_other.never_nil-law s x11)
          (λ x10 h10. (width_rounds.round-law R.row R.ReadSlice.own (given 0) R.Source (given 0) (λ e. cc) s x10 h10)) x h)),
    ) v fits };

    ghost same = { (SameFrame (
      ⟦<Id as RoundTrip<'de, R>>⟧.same,
      ⟦<Width as RoundTrip<'de, R>>⟧.same,
      ⟦<[u8; 16] as RoundTrip<'de, R>>⟧.same,
      ⟦<BTreeMap<String, u64> as RoundTrip<'de, R>>⟧.same,
      ⟦<Option<Width> as RoundTrip<'de, R>>⟧.same,
    )) };

    ghost alike = { λ human v w h. (h (
      (λ x. ⟦<Id as Serialize>⟧.data_of x human),
      (λ x. ⟦<Width as Serialize>⟧.data_of x human),
      (λ x. ⟦<[u8; 16] as Serialize>⟧.data_of x human),
      (λ x. ⟦<BTreeMap<String, u64> as Serialize>⟧.data_of x human),
      (λ x. ⟦<Option<Width> as Serialize>⟧.data_of x human),
    )) (
      (λ x y e i. (id_rounds.alike-law R.row R.ReadSlice.own (given 0) R.Source (given 0) human x y e i)),
      (λ x y e i. (width_rounds.alike-law R.row R.ReadSlice.own (given 0) R.Source (given 0) human x y e i)),
      (λ x y e i. (array_alike ⟦<u8 as RoundTrip<'de, R>>⟧.same (λ x. ⟦<u8 as Serialize>⟧.data_of x human)
          (λ x1 yx1 h1 i. (⟦<u8 as Serialize>⟧.data_of (h1 i) human)) x y e i)),
      (λ x y e i. (mapping_alike ⟦<String as RoundTrip<'de, R>>⟧.same (λ x. ⟦<String as Serialize>⟧.data_of x human)
          (λ x2 yx2 h2 i. (text_alike (string_bytes x2) (string_bytes yx2) h2 i)) ⟦<u64 as RoundTrip<'de, R>>⟧.same
          (λ x. ⟦<u64 as Serialize>⟧.data_of x human) (λ x3 yx3 h3 i. (⟦<u64 as Serialize>⟧.data_of (h3 i) human)) x.entries y.entries e i)),
      (λ x y e i. (option_alike ⟦<Width as RoundTrip<'de, R>>⟧.same (λ x. ⟦<Width as Serialize>⟧.data_of x human)
          (λ x4 yx4 h4 i. (width_rounds.alike-law R.row R.ReadSlice.own (given 0) R.Source (given 0) human x4 yx4 h4 i)) x y e i)),
    ) };

    ghost only = { λ s v fits. (frame_only s (
      ⟦<Id as Deserialize<'de, R>>⟧.reads s.human R.lends,
      ⟦<Width as Deserialize<'de, R>>⟧.reads s.human R.lends,
      ⟦<[u8; 16] as Deserialize<'de, R>>⟧.reads s.human R.lends,
      ⟦<BTreeMap<String, u64> as Deserialize<'de, R>>⟧.reads s.human R.lends,
      ⟦<Option<Width> as Deserialize<'de, R>>⟧.reads s.human R.lends,
    ) (
      (λ x. ⟦<Id as Serialize>⟧.data_of x s.human),
      (λ x. ⟦<Width as Serialize>⟧.data_of x s.human),
      (λ x. ⟦<[u8; 16] as Serialize>⟧.data_of x s.human),
      (λ x. ⟦<BTreeMap<String, u64> as Serialize>⟧.data_of x s.human),
      (λ x. ⟦<Option<Width> as Serialize>⟧.data_of x s.human),
    ) (
      ⟦<Id as Serialize>⟧.is_value,
      ⟦<Width as Serialize>⟧.is_value,
      ⟦<[u8; 16] as Serialize>⟧.is_value,
      ⟦<BTreeMap<String, u64> as Serialize>⟧.is_value,
      ⟦<Option<Width> as Serialize>⟧.is_value,
    ) (
      ⟦<Id as RoundTrip<'de, R>>⟧.same,
      ⟦<Width as RoundTrip<'de, R>>⟧.same,
      ⟦<[u8; 16] as RoundTrip<'de, R>>⟧.same,
      ⟦<BTreeMap<String, u64> as RoundTrip<'de, R>>⟧.same,
      ⟦<Option<Width> as RoundTrip<'de, R>>⟧.same,
    )) (
      (λ x h. (id_rounds.only-law R.row R.ReadSlice.own (given 0) R.Source (given 0) s x h)),
      (λ x h. (width_rounds.only-law R.row R.ReadSlice.own (given 0) R.Source (given 0) s x h)),
      (λ x h. (array_only s _ 16 (⟦<u8 as Deserialize<'de, R>>⟧.reads s.human R.lends) ⟦<u8 as RoundTrip<'de, R>>⟧.same x
          (tuple_row s _ (λ ms. ReadsEach (Only (⟦<u8 as Deserialize<'de, R>>⟧.reads s.human R.lends) ⟦<u8 as RoundTrip<'de, R>>⟧.same) ms x)
          (each_row s (λ x. ⟦<u8 as Serialize>⟧.data_of x s.human) ⟦<u8 as Serialize>⟧.is_value
          (Only (⟦<u8 as Deserialize<'de, R>>⟧.reads s.human R.lends) ⟦<u8 as RoundTrip<'de, R>>⟧.same) (λ x5 h5. (byte_only s x5)) x h.1)))),
      (λ x h. (entries_only (⟦<String as Deserialize<'de, R>>⟧.reads s.human R.lends) (⟦<u64 as Deserialize<'de, R>>⟧.reads s.human R.lends)
          ⟦<String as RoundTrip<'de, R>>⟧.same ⟦<u64 as RoundTrip<'de, R>>⟧.same s _ (λ w. w.entries) {cmp = ⟦<String as Ord>⟧.cmp}
          (on_total (λ x. string_bytes x) nat_list_cmp_total) (λ x y e. tied (slice_cmp nat_cmp) nat_list_cmp_total (string_bytes x) (string_bytes y) e)
          x.entries h.1 (pairs_row s (λ x. ⟦<String as Serialize>⟧.data_of x s.human) (λ x. ⟦<u64 as Serialize>⟧.data_of x s.human)
          ⟦<String as Serialize>⟧.is_value ⟦<u64 as Serialize>⟧.is_value
          (Only (⟦<String as Deserialize<'de, R>>⟧.reads s.human R.lends) ⟦<String as RoundTrip<'de, R>>⟧.same)
          (Only (⟦<u64 as Deserialize<'de, R>>⟧.reads s.human R.lends) ⟦<u64 as RoundTrip<'de, R>>⟧.same)
          (λ x6 h6. (string_only s (λ w. string_bytes w) (string_bytes x6))) (λ x7 h7. (unsigned_only s 18446744073709551615 x7)) x.entries h.0))),
      (λ x h. (option_only s _ (⟦<Width as Deserialize<'de, R>>⟧.reads s.human R.lends) ⟦<Width as RoundTrip<'de, R>>⟧.same x
          (option_row s (λ x. ⟦<Width as Serialize>⟧.data_of x s.human) ⟦<Width as Serialize>⟧.is_value
          (Only (⟦<Width as Deserialize<'de, R>>⟧.reads s.human R.lends) ⟦<Width as RoundTrip<'de, R>>⟧.same) (λ x9. width_other.never_nil-law s x9)
          (λ x8 h8. (width_rounds.only-law R.row R.ReadSlice.own (given 0) R.Source (given 0) s x8 h8)) x h))),
    ) v fits };
}

impl NeverNil for Frame {
    ghost never_nil = { λ s v. (frame_other s (
      (λ x. ⟦<Id as Serialize>⟧.data_of x s.human),
      (λ x. ⟦<Width as Serialize>⟧.data_of x s.human),
      (λ x. ⟦<[u8; 16] as Serialize>⟧.data_of x s.human),
      (λ x. ⟦<BTreeMap<String, u64> as Serialize>⟧.data_of x s.human),
      (λ x. ⟦<Option<Width> as Serialize>⟧.data_of x s.human),
    )) v };
}

impl Serialize for Doc {
    ghost data_of = { λ v human. (doc_data ((λ x. ⟦<Width as Serialize>⟧.data_of x human), (λ x. ⟦<Id as Serialize>⟧.data_of x human))) v };

    ghost is_value = { λ v. (doc_fits (⟦<Width as Serialize>⟧.is_value, ⟦<Id as Serialize>⟧.is_value)) v };

    ghost takes_memory = { λ s. one_of (forces_slices s.bytes
        ∷ (forces_all s.bytes ∷ (⟦<Width as Serialize>⟧.takes_memory s ∷ (⟦<Id as Serialize>⟧.takes_memory s ∷ [])))) };

    #[tactic(auto, unfolding(rmp_encode::specs::Data::lower))]
    #[cycle(doc_writing)]
    fn serialize<W: Sink, C: SerializerConfig>(
        &self,
        se: &mut Serializer<W, C>,
    ) -> Result<(), rmp_encode::Error> {
        match self {
            Doc::Null => se.serialize_unit_variant("Doc", 0, "Null"),
            Doc::Wide(value) => se.serialize_newtype_variant("Doc", 1, "Wide", value),
            Doc::Framed { id, doc } => {
                let mut fields = se.serialize_struct_variant("Doc", 2, "Framed", 2)?;
                fields.serialize_field("id", id)?;
                fields.serialize_field("doc", doc)?;
                fields.end()
            }
            Doc::Array(value) => se.serialize_newtype_variant("Doc", 3, "Array", value),
            Doc::Object(value) => se.serialize_newtype_variant("Doc", 4, "Object", value),
        }
    }

    #[tactic(auto, using(crate::proofs::DocLevels::doc_no_byte))]
    fn as_u8(&self, _human: bool) -> Option<u8> {
        match self {
            Doc::Null => None,
            Doc::Wide(_) => None,
            Doc::Framed { .. } => None,
            Doc::Array(_) => None,
            Doc::Object(_) => None,
        }
    }
}

// Reads a `Doc`.
#[cycle(doc_reading)]
fn read_doc<
    R: Source,
    C: SerializerConfig,
    P: ReadContent<R> + ReadPlaces<R> + ReadLeaves<R> + DocParts<R>,
>(de: &mut Deserializer<R, C>) -> Result<Doc, rmp_decode::Error>
    ensures law { Lawful R.Source (IsDoc (P.reads_of C.human)) de.old de.new result }
{
    match de.deserialize_enum_by::<P>(&["Null", "Wide", "Framed", "Array", "Object"]) {
        Ok((0, variant)) => match variant.unit_variant() {
            Ok(()) => Ok(Doc::Null),
            Err(e) => Err(e),
        },
        Ok((1, variant)) => match variant.newtype_variant_with(
            |de: &mut Deserializer<R, C>| -> Result<Width, rmp_decode::Error>
                ensures law { Lawful R.Source (λ m v. (P.reads_of C.human).0 m v) de.old de.new result }
            { P::read_width::<C>(de) },
        ) {
            Ok(value) => Ok(Doc::Wide(value)),
            Err(e) => Err(e),
        },
        Ok((2, variant)) => match variant.newtype_variant_with(
            |de: &mut Deserializer<R, C>| -> Result<(Id, Box<Doc>), rmp_decode::Error>
                ensures law { Lawful R.Source (λ m v. (DocFramedRead (P.reads_of C.human)) (IsDoc (P.reads_of C.human)) m v) de.old de.new result }
            { read_doc_framed_fields::<R, C, P>(de) },
        ) {
            Ok((id, doc)) => Ok(Doc::Framed { id, doc }),
            Err(e) => Err(e),
        },
        Ok((3, variant)) => match variant.newtype_variant_with(
            |de: &mut Deserializer<R, C>| -> Result<Vec<Doc>, rmp_decode::Error>
                ensures law { Lawful R.Source (λ m v. Row (IsDoc (P.reads_of C.human)) m v.items) de.old de.new result }
            { read_doc_list::<R, C, P>(de) },
        ) {
            Ok(value) => Ok(Doc::Array(value)),
            Err(e) => Err(e),
        },
        Ok((_, variant)) => match variant.newtype_variant_with(
            |de: &mut Deserializer<R, C>| -> Result<Vec<(String, Doc)>, rmp_decode::Error>
                ensures law { Lawful R.Source (λ m v. Row (λ j q. OfRow
                    (AndThen (λ j. IsRaw j (string_bytes q.0)) (AndThen (λ j. (IsDoc (P.reads_of C.human)) j q.1) NoMore)) j) m v.items) de.old de.new result }
            { read_doc_tuple_string_doc_list::<R, C, P>(de) },
        ) {
            Ok(value) => Ok(Doc::Object(value)),
            Err(e) => Err(e),
        },
        Err(e) => Err(e),
    }
}

// Reads the fields of `Framed`.
#[cycle(doc_reading)]
fn read_doc_framed_fields<
    R: Source,
    C: SerializerConfig,
    P: ReadContent<R> + ReadPlaces<R> + ReadLeaves<R> + DocParts<R>,
>(de: &mut Deserializer<R, C>) -> Result<(Id, Box<Doc>), rmp_decode::Error>
    ensures law { Lawful R.Source (λ m v. (DocFramedRead (P.reads_of C.human)) (IsDoc (P.reads_of C.human)) m v) de.old de.new result }
{
    let mut fields = match de.deserialize_struct("Framed", &["id", "doc"]) {
        Ok(fields) => fields,
        Err(e) => return Err(e),
    };
    let mut slot0: Option<Id> = None;
    let mut slot1: Option<Box<Doc>> = None;
    loop {
        match fields.next_field_by::<P>() {
            Ok(Some(0)) => match fields.next_value_with(
                |de: &mut Deserializer<R, C>| -> Result<Id, rmp_decode::Error>
                    ensures law { Lawful R.Source (λ m v. (P.reads_of C.human).1 m v) de.old de.new result }
                { P::read_id::<C>(de) },
            ) {
                Ok(value) => slot0 = Some(value),
                Err(e) => return Err(e),
            },
            Ok(Some(_)) => match fields.next_value_with(
                |de: &mut Deserializer<R, C>| -> Result<Box<Doc>, rmp_decode::Error>
                    ensures law { Lawful R.Source (λ m v. (IsDoc (P.reads_of C.human)) m v.value) de.old de.new result }
                { read_doc_box::<R, C, P>(de) },
            ) {
                Ok(value) => slot1 = Some(value),
                Err(e) => return Err(e),
            },
            Ok(None) => break,
            Err(e) => return Err(e),
        }
    }
    let value0 = match fields.given_or("id", slot0, None) {
        Ok(value) => value,
        Err(e) => return Err(e),
    };
    let value1 = match fields.given_or("doc", slot1, None) {
        Ok(value) => value,
        Err(e) => return Err(e),
    };
    match fields.end() {
        Ok(()) => Ok((value0, value1)),
        Err(e) => Err(e),
    }
}

// Reads a boxed one.
#[cycle(doc_reading)]
fn read_doc_box<
    R: Source,
    C: SerializerConfig,
    P: ReadContent<R> + ReadPlaces<R> + ReadLeaves<R> + DocParts<R>,
>(de: &mut Deserializer<R, C>) -> Result<Box<Doc>, rmp_decode::Error>
    ensures law { Lawful R.Source (λ m v. (IsDoc (P.reads_of C.human)) m v.value) de.old de.new result }
{
    let value = match read_doc::<R, C, P>(de) {
        Ok(value) => value,
        Err(e) => return Err(e),
    };
    match Box::new(de.alloc(), value) {
        Ok(boxed) => Ok(boxed),
        Err(_) => Err(de.refuse(rmp_decode::Error::OutOfMemory)),
    }
}

// Reads a list of them.
#[cycle(doc_reading)]
fn read_doc_list<
    R: Source,
    C: SerializerConfig,
    P: ReadContent<R> + ReadPlaces<R> + ReadLeaves<R> + DocParts<R>,
>(de: &mut Deserializer<R, C>) -> Result<Vec<Doc>, rmp_decode::Error>
    ensures law { Lawful R.Source (λ m v. Row (IsDoc (P.reads_of C.human)) m v.items) de.old de.new result }
{
    let mut items = Vec::new(de.alloc());
    let mut seq = de.deserialize_seq()?;
    while let Some(item) = seq.next_element_with(
        |de: &mut Deserializer<R, C>| -> Result<Doc, rmp_decode::Error>
            ensures law { Lawful R.Source (λ m v. (IsDoc (P.reads_of C.human)) m v) de.old de.new result }
        { read_doc::<R, C, P>(de) },
    )? {
        items.push(item)?;
    }
    seq.end()?;
    Ok(items)
}

// Reads a `Vec<(String, Doc)>`.
#[cycle(doc_reading)]
fn read_doc_tuple_string_doc_list<
    R: Source,
    C: SerializerConfig,
    P: ReadContent<R> + ReadPlaces<R> + ReadLeaves<R> + DocParts<R>,
>(de: &mut Deserializer<R, C>) -> Result<Vec<(String, Doc)>, rmp_decode::Error>
    ensures law { Lawful R.Source (λ m v. Row (λ j q. OfRow
        (AndThen (λ j. IsRaw j (string_bytes q.0)) (AndThen (λ j. (IsDoc (P.reads_of C.human)) j q.1) NoMore)) j) m v.items) de.old de.new result }
{
    let mut items = Vec::new(de.alloc());
    let mut seq = de.deserialize_seq()?;
    while let Some(item) = seq.next_element_with(
        |de: &mut Deserializer<R, C>| -> Result<(String, Doc), rmp_decode::Error>
            ensures law { Lawful R.Source (λ m v. OfRow (AndThen (λ j. IsRaw j (string_bytes v.0)) (AndThen (λ j. (IsDoc (P.reads_of C.human)) j v.1) NoMore)) m)
                de.old de.new result }
        { read_doc_tuple_string_doc::<R, C, P>(de) },
    )? {
        items.push(item)?;
    }
    seq.end()?;
    Ok(items)
}

// Reads a `(String, Doc)`.
#[cycle(doc_reading)]
fn read_doc_tuple_string_doc<
    R: Source,
    C: SerializerConfig,
    P: ReadContent<R> + ReadPlaces<R> + ReadLeaves<R> + DocParts<R>,
>(de: &mut Deserializer<R, C>) -> Result<(String, Doc), rmp_decode::Error>
    ensures law { Lawful R.Source (λ m v. OfRow (AndThen (λ j. IsRaw j (string_bytes v.0)) (AndThen (λ j. (IsDoc (P.reads_of C.human)) j v.1) NoMore)) m)
        de.old de.new result }
{
    let mut seq = match de.deserialize_seq() {
        Ok(seq) => seq,
        Err(e) => return Err(e),
    };
    let first = match seq.next_element_with(
        |de: &mut Deserializer<R, C>| -> Result<String, rmp_decode::Error>
            ensures law { Lawful R.Source (λ m v. IsRaw m (string_bytes v)) de.old de.new result }
        { P::read_string::<C>(de) },
    ) {
        Ok(Some(value)) => value,
        Ok(None) => return Err(rmp_decode::Error::Syntax(rmp_decode::Text::InvalidLength)),
        Err(e) => return Err(e),
    };
    let second = match seq.next_element_with(
        |de: &mut Deserializer<R, C>| -> Result<Doc, rmp_decode::Error>
            ensures law { Lawful R.Source (λ m v. (IsDoc (P.reads_of C.human)) m v) de.old de.new result }
        { read_doc::<R, C, P>(de) },
    ) {
        Ok(Some(value)) => value,
        Ok(None) => return Err(rmp_decode::Error::Syntax(rmp_decode::Text::InvalidLength)),
        Err(e) => return Err(e),
    };
    match seq.end() {
        Ok(()) => Ok((first, second)),
        Err(e) => Err(e),
    }
}

impl<'de, R: ReadSlice<'de>> Deserialize<'de, R> for Doc {
    ghost reads = { λ human lends. (IsDoc (⟦<Width as Deserialize<'de, R>>⟧.reads human lends, ⟦<Id as Deserialize<'de, R>>⟧.reads human lends)) };

    ghost absent = { None };

    fn deserialize<C: SerializerConfig>(
        de: &mut Deserializer<R, C>,
    ) -> Result<Doc, rmp_decode::Error> {
        read_doc::<R, C, Slices<'de>>(de)
    }

    fn missing() -> Option<Doc> {
        None
    }
}

impl<'de, R: ReadSlice<'de>> RoundTrip<'de, R> for Doc {
    ghost use Rattle.test_nodes.specs.contracts.parts.derived.IdRoundTrip.TheImpl.Laws as id_rounds;
    ghost use Rattle.test_nodes.specs.contracts.parts.derived.WidthRoundTrip.TheImpl.Laws as width_rounds;
    ghost use mir.Syntax.{given};

    ghost has_data = { λ human v. (doc_some ((λ x. ⟦<Width as Serialize>⟧.data_of x human), (λ x. ⟦<Id as Serialize>⟧.data_of x human))) (
      (λ x. (width_rounds.has_data-law R.row R.ReadSlice.own (given 0) R.Source (given 0) human x)),
      (λ x. (id_rounds.has_data-law R.row R.ReadSlice.own (given 0) R.Source (given 0) human x)),
    ) v };

    ghost round = { λ lent s v fits. (doc_round s (
      ⟦<Width as Deserialize<'de, R>>⟧.reads s.human R.lends,
      ⟦<Id as Deserialize<'de, R>>⟧.reads s.human
          R.lends,
    ) ((λ x. ⟦<Width as Serialize>⟧.data_of x s.human), (λ x. ⟦<Id as Serialize>⟧.data_of x s.human))
        (⟦<Width as Serialize>⟧.is_value, ⟦<Id as Serialize>⟧.is_value)) (
          (λ x h. (width_rounds.round-law R.row R.ReadSlice.own (given 0) R.Source (given 0) (λ e. cc) s x h)),
          (λ x h. (id_rounds.round-law R.row R.ReadSlice.own (given 0) R.Source (given 0) (λ e. cc) s x h)),
        ) v fits };

    ghost same = { (SameDoc (⟦<Width as RoundTrip<'de, R>>⟧.same, ⟦<Id as RoundTrip<'de, R>>⟧.same)) };

    ghost alike = { λ human v w h. (h ((λ x. ⟦<Width as Serialize>⟧.data_of x human), (λ x. ⟦<Id as Serialize>⟧.data_of x human))) (
      (λ x y e i. (width_rounds.alike-law R.row R.ReadSlice.own (given 0) R.Source (given 0) human x y e i)),
      (λ x y e i. (id_rounds.alike-law R.row R.ReadSlice.own (given 0) R.Source (given 0) human x y e i)),
    ) };

    ghost only = { λ s v fits. (doc_only s (⟦<Width as Deserialize<'de, R>>⟧.reads s.human R.lends, ⟦<Id as Deserialize<'de, R>>⟧.reads s.human R.lends)
        ((λ x. ⟦<Width as Serialize>⟧.data_of x s.human), (λ x. ⟦<Id as Serialize>⟧.data_of x s.human))
        (⟦<Width as Serialize>⟧.is_value, ⟦<Id as Serialize>⟧.is_value) (⟦<Width as RoundTrip<'de, R>>⟧.same, ⟦<Id as RoundTrip<'de, R>>⟧.same)) (
          (λ x h. (width_rounds.only-law R.row R.ReadSlice.own (given 0) R.Source (given 0) s x h)),
          (λ x h. (id_rounds.only-law R.row R.ReadSlice.own (given 0) R.Source (given 0) s x h)),
        ) v fits };
}

impl NeverNil for Doc {
    ghost never_nil = { λ s v. (doc_other s ((λ x. ⟦<Width as Serialize>⟧.data_of x s.human), (λ x. ⟦<Id as Serialize>⟧.data_of x s.human))) v };
}

impl Serialize for Width {
    ghost data_of = { λ v human. elim v [
      | the_width.Px a1 ↦ newtype_variant_of (codes "Px") (⟦<u32 as Serialize>⟧.data_of a1 human)
      | the_width.Em a1 ↦
          newtype_variant_of (codes "Em") (⟦<String as Serialize>⟧.data_of a1 human)
    ] };

    ghost is_value = { λ v. elim v [ the_width.Px a1 ↦ ⟦<u32 as Serialize>⟧.is_value a1 | the_width.Em a1 ↦ ⟦<String as Serialize>⟧.is_value a1 ] };

    ghost takes_memory = { λ s. one_of (⟦<u32 as Serialize>⟧.takes_memory s ∷ (⟦<String as Serialize>⟧.takes_memory s ∷ [])) };

    ghost refuses = { λ v. elim v [
      | the_width.Px a1 ↦ OfParts ⊥ (⟦<u32 as Serialize>⟧.refuses a1 ∷ [])
      | the_width.Em a1 ↦ OfParts ⊥
          (⟦<String as Serialize>⟧.refuses a1 ∷ [])
    ] };

    fn serialize<W: Sink, C: SerializerConfig>(
        &self,
        se: &mut Serializer<W, C>,
    ) -> Result<(), rmp_encode::Error> {
        match self {
            Width::Px(first) => se.serialize_newtype_variant("Width", 0, "Px", first),
            Width::Em(first) => se.serialize_newtype_variant("Width", 1, "Em", first),
        }
    }

    fn as_u8(&self, _human: bool) -> Option<u8> {
        match self {
            Width::Px(_) => None,
            Width::Em(_) => None,
        }
    }
}

impl<'de, R: ReadSlice<'de>> Deserialize<'de, R> for Width {
    ghost reads = { λ human lends m v. OfVariant (codes "Px" ∷ (codes "Em" ∷ []))
        (Case (λ c. (a1 : _) × (v ≡ the_width.Px a1) × Content (λ k. ⟦<u32 as Deserialize<'de, R>>⟧.reads human lends k a1) c)
        (Case (λ c. (a1 : _) × (v ≡ the_width.Em a1) × Content (λ k. ⟦<String as Deserialize<'de, R>>⟧.reads human lends k a1) c) NoCase)) m };

    ghost absent = { None };

    ghost refuses = { RefusesEnum (codes "Px" ∷ (codes "Em" ∷ []))
        (with_content (⟦<u32 as Deserialize<'de, R>>⟧.refuses) ∷ (with_content (⟦<String as Deserialize<'de, R>>⟧.refuses) ∷ [])) };

    fn deserialize<C: SerializerConfig>(
        de: &mut Deserializer<R, C>,
    ) -> Result<Width, rmp_decode::Error> {
        match de.deserialize_enum(&["Px", "Em"]) {
            Ok((0, variant)) => match variant.newtype_variant() {
                Ok(first) => return Ok(Width::Px(first)),
                Err(e) => return Err(e),
            },
            Ok((_, variant)) => match variant.newtype_variant() {
                Ok(first) => return Ok(Width::Em(first)),
                Err(e) => return Err(e),
            },
            Err(e) => return Err(e),
        }
    }

    fn missing() -> Option<Width> {
        None
    }
}

impl<'de, R: ReadSlice<'de>> RoundTrip<'de, R> for Width {
    ghost has_data = { λ human. elim [
      | the_width.Px a1 ↦ newtype_variant_some (codes "Px") (⟦<u32 as Serialize>⟧.data_of a1 human) refl
      | the_width.Em a1 ↦
          newtype_variant_some (codes "Em") (⟦<String as Serialize>⟧.data_of a1 human) refl
    ] };

    ghost round = { λ lent s. let names = codes "Px" ∷ (codes "Em" ∷ [])
        in elim [
          | the_width.Px a1 ↦ λ fits. newtype_variant_row s names (codes "Px") 0 refl _ _
              (λ j. ⟦<u32 as Deserialize<'de, R>>⟧.reads s.human R.lends j a1) (λ m h. (a1, refl, h)) (unsigned_row_32 s a1 fits)
          | the_width.Em a1 ↦ λ fits.
              newtype_variant_row s names (codes "Em") 1 refl _ _ (λ j. ⟦<String as Deserialize<'de, R>>⟧.reads s.human R.lends j a1) (λ m h. (a1, refl, h))
              (string_row s (string_bytes a1))
        ] };

    ghost same = { λ v w. elim v [
      | the_width.Px a1 ↦ (b1 : _) × (w ≡ the_width.Px b1) × ⟦<u32 as RoundTrip<'de, R>>⟧.same a1 b1
      | the_width.Em a1 ↦ (b1 : _)
          × (w ≡ the_width.Em b1) × ⟦<String as RoundTrip<'de, R>>⟧.same a1 b1
    ] };

    ghost alike = { λ human. elim [
      | the_width.Px a1 ↦ λ w h. variant_alike (λ x. ⟦<Width as Serialize>⟧.data_of x human) w (the_width.Px h.0) h.1
          (λ i. newtype_variant_of (codes "Px") (⟦<u32 as Serialize>⟧.data_of (h.2 i) human))
      | the_width.Em a1 ↦ λ w h. variant_alike
          (λ x. ⟦<Width as Serialize>⟧.data_of x human) w (the_width.Em h.0) h.1
          (λ i. newtype_variant_of (codes "Em") (text_alike (string_bytes a1) (string_bytes h.0) h.2 i))
    ] };

    ghost only = { λ s. let names = codes "Px" ∷ (codes "Em" ∷ [])
        in elim [
          | the_width.Px a1 ↦ λ fits. lowers_then s _ _ (λ m. (w : _) → (⟦<Width as Deserialize<'de, R>>⟧.reads s.human R.lends) m w
              → (b1 : _) × (w ≡ the_width.Px b1) × ⟦<u32 as RoundTrip<'de, R>>⟧.same a1 b1)
              (newtype_variant_row s names (codes "Px") 0 refl (AtPlace 0
              (Content (λ j. Only (⟦<u32 as Deserialize<'de, R>>⟧.reads s.human R.lends) ⟦<u32 as RoundTrip<'de, R>>⟧.same j a1))) _
              (λ j. Only (⟦<u32 as Deserialize<'de, R>>⟧.reads s.human R.lends) ⟦<u32 as RoundTrip<'de, R>>⟧.same j a1) (λ m h. (refl, h))
              (unsigned_only s 4294967295 a1)) (λ m q w r. variant_both names 0 _ _ _ m q r
              (λ c a b. (b.0, b.1, content_only (⟦<u32 as Deserialize<'de, R>>⟧.reads s.human R.lends) ⟦<u32 as RoundTrip<'de, R>>⟧.same a1 b.0 c a b.2)))
          | the_width.Em a1 ↦ λ fits. lowers_then s _ _ (λ m. (w : _) → (⟦<Width as Deserialize<'de, R>>⟧.reads s.human R.lends) m w
              → (b1 : _) × (w ≡ the_width.Em b1) × ⟦<String as RoundTrip<'de, R>>⟧.same a1 b1)
              (newtype_variant_row s names (codes "Em") 1 refl (AtPlace 1
              (Content (λ j. Only (⟦<String as Deserialize<'de, R>>⟧.reads s.human R.lends) ⟦<String as RoundTrip<'de, R>>⟧.same j a1))) _
              (λ j. Only (⟦<String as Deserialize<'de, R>>⟧.reads s.human R.lends) ⟦<String as RoundTrip<'de, R>>⟧.same j a1) (λ m h. (refl, h))
              (string_only s (λ w. string_bytes w) (string_bytes a1)))
              (λ m q w r. variant_both names 1 _ _ _ m q r (λ c a b.
              (b.0, b.1, content_only (⟦<String as Deserialize<'de, R>>⟧.reads s.human R.lends) ⟦<String as RoundTrip<'de, R>>⟧.same a1 b.0 c a b.2)))
        ] };
}

impl NeverNil for Width {
    ghost never_nil = { λ s. elim [ the_width.Px a1 ↦ newtype_variant_other s (codes "Px") _ | the_width.Em a1 ↦ newtype_variant_other s (codes "Em") _ ] };
}

impl Serialize for Id {
    ghost data_of = { λ v human. wrapped_of (⟦<u64 as Serialize>⟧.data_of v.0 human) };

    ghost is_value = { λ v. ⟦<u64 as Serialize>⟧.is_value v.0 };

    ghost takes_memory = { λ s. ⟦<u64 as Serialize>⟧.takes_memory s };

    ghost refuses = { λ v. ⟦<u64 as Serialize>⟧.refuses v.0 };

    fn serialize<W: Sink, C: SerializerConfig>(
        &self,
        se: &mut Serializer<W, C>,
    ) -> Result<(), rmp_encode::Error> {
        se.serialize_newtype_struct("Id", &self.0)
    }

    #[tactic(auto, using(rmp_encode::proofs::Wrapped::wrapped_no_byte))]
    fn as_u8(&self, _human: bool) -> Option<u8> {
        None
    }
}

impl<'de, R: ReadSlice<'de>> Deserialize<'de, R> for Id {
    ghost reads = { λ human lends m v. ⟦<u64 as Deserialize<'de, R>>⟧.reads human lends m v.0 };

    ghost absent = { None };

    ghost refuses = { ⟦<u64 as Deserialize<'de, R>>⟧.refuses };

    #[inline(always)]
    fn deserialize<C: SerializerConfig>(
        de: &mut Deserializer<R, C>,
    ) -> Result<Id, rmp_decode::Error> {
        match de.deserialize_newtype_struct("Id") {
            Ok(first) => return Ok(Id(first)),
            Err(e) => return Err(e),
        }
    }

    fn missing() -> Option<Id> {
        None
    }
}

impl<'de, R: ReadSlice<'de>> RoundTrip<'de, R> for Id {
    ghost has_data = { λ human v. newtype_some (⟦<u64 as Serialize>⟧.data_of v.0 human) refl };

    ghost round = { λ lent s v fits. newtype_row s (⟦<u64 as Serialize>⟧.data_of v.0 s.human)
        (λ j. ⟦<u64 as Deserialize<'de, R>>⟧.reads s.human R.lends j v.0) (unsigned_row_64 s v.0 fits) };

    ghost same = { λ v w. ⟦<u64 as RoundTrip<'de, R>>⟧.same v.0 w.0 };

    ghost alike = { λ human v w h i. wrapped_of (⟦<u64 as Serialize>⟧.data_of (h i) human) };

    ghost only = { λ s v fits. lowers_then s (wrapped_of (⟦<u64 as Serialize>⟧.data_of v.0 s.human))
        (λ j. Only (⟦<u64 as Deserialize<'de, R>>⟧.reads s.human R.lends) ⟦<u64 as RoundTrip<'de, R>>⟧.same j v.0) (λ m. (w : _)
        → (⟦<Id as Deserialize<'de, R>>⟧.reads s.human R.lends) m w
        → ⟦<u64 as RoundTrip<'de, R>>⟧.same v.0 w.0) (newtype_row s (⟦<u64 as Serialize>⟧.data_of v.0 s.human)
        (λ j. Only (⟦<u64 as Deserialize<'de, R>>⟧.reads s.human R.lends) ⟦<u64 as RoundTrip<'de, R>>⟧.same j v.0)
        (unsigned_only s 18446744073709551615 v.0)) (λ m q w r. q w.0 r) };
}

impl NeverNil for Id {
    ghost never_nil = { λ s v. newtype_other s (⟦<u64 as Serialize>⟧.data_of v.0 s.human) (pos_other s v.0) };
}
