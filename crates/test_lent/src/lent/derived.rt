//! How the types of lent.rt are written and read. Written by tools/derive.py.
//!
//! Sum of Line: 803eb516.
//! Sum of Label: b73185ca.
//! Sum of Piece: 02ca2e35.
//! Sum of Event: 1b69c61d.
ghost use Rattle.rmp_decode.specs.EnumRefusing.{RefusesEnum, no_content, with_content};
ghost use Rattle.rmp_decode.specs.FieldRefusing.{RefusesFields};
ghost use Rattle.rmp_decode.specs.Fields.{OfFields, Field, Absent, NoField};
ghost use Rattle.rmp_decode.specs.Refusing.{RefusesTuple, part_of};
ghost use Rattle.rmp_decode.specs.Rows.{AndThen, NoMore, ReadsEach};
ghost use Rattle.rmp_decode.specs.Seq.{OfRow};
ghost use Rattle.rmp_decode.specs.Variants.{OfVariant, Case, NoCase, Bare, Content};
ghost use Rattle.rmp_encode.specs.Data.{unit_variant};
ghost use Rattle.rmp_encode.specs.Refusals.{OfParts, OfSink};
ghost use Rattle.rmp_encode.specs.Ser.{sink_of, settings_of};
ghost use Rattle.rmp_encode.specs.Sizes.{one_of};
ghost use Rattle.rmp_encode.specs.Trees.{wrapped_of, sequence_of, structure_of, newtype_variant_of, tuple_variant_of, struct_variant_of, tree_of};
ghost use Rattle.rmp_encode.specs.Writes.{Keeps, WritesTree};
ghost use Rattle.rmp_ends.specs.EnumEnds.{enum_inside, no_content_inside, with_content_inside};
ghost use Rattle.rmp_ends.specs.FieldEnds.{fields_inside};
ghost use Rattle.rmp_ends.specs.LeafEnds.{number_inside, str_inside, bytes_inside};
ghost use Rattle.rmp_ends.specs.RowEnds.{each_inside, option_inside, tuple_inside};
ghost use Rattle.rmp_round_trip.specs.AlikeData.{bytes_alike, option_alike, slice_alike, text_alike, variant_alike};
ghost use Rattle.rmp_round_trip.specs.LeafRounds.{byte_row, unsigned_row_32, signed_row_16, str_row, bytes_row, text_other};
ghost use Rattle.rmp_round_trip.specs.OnlyFields.{AtPlace, AnyContent, content_fields, content_only, content_row};
ghost use Rattle.rmp_round_trip.specs.OnlyFields.{field_only, fields_both, last_field, variant_both};
ghost use Rattle.rmp_round_trip.specs.OnlyLeaves.{byte_only, unsigned_only, signed_only, str_only, bytes_only};
ghost use Rattle.rmp_round_trip.specs.OnlyRows.{item_only, last_only, list_only, lowers_then, option_only, row_both};
ghost use Rattle.rmp_round_trip.specs.RoundTrip.{Only};
ghost use Rattle.rmp_round_trip.specs.Rounds.{each_some, each_row, option_some, option_row, slice_some};
ghost use Rattle.rmp_round_trip.specs.Rounds.{slice_row, sequence_row, sequence_other, rows_none, rows_cons};
ghost use Rattle.rmp_round_trip.specs.StructRounds.{sequence_all, tuple_variant_all, structure_all, struct_variant_all};
ghost use Rattle.rmp_round_trip.specs.StructRounds.{structure_row, structure_other, fields_none, fields_cons};
ghost use Rattle.rmp_round_trip.specs.VariantRounds.{bare_other, newtype_variant_other, tuple_variant_other, struct_variant_other};
ghost use Rattle.rmp_round_trip.specs.VariantRounds.{newtype_some, newtype_variant_some, newtype_row, bare_row};
ghost use Rattle.rmp_round_trip.specs.VariantRounds.{newtype_variant_row, tuple_variant_row, struct_variant_row, newtype_other};
ghost use Rattle.rmp_wire.specs.Types.{bytes_of};
ghost use Rattle.std.proofs.Common.{refl};
ghost use Rattle.std.specs.Option.{is_none};
ghost use Rattle.std.specs.Prelude.{◌≡◌, ◌∷◌, [], None, Some, codes, false, ⊤, OnOk, IfErr, ◌||◌, true, pos, negsuc};
ghost use Rattle.test_lent.specs.declared.lent.Event.TheVariants as the_event;

use super::{Bytes, Event, Label, Line, Piece};
use rmp_decode::{Deserialize, Deserializer, ReadFields};
use rmp_encode::{Serialize, Serializer};
use rmp_ends::EndsInside;
use rmp_round_trip::{NeverNil, RoundTrip};
use rmp_wire::config::SerializerConfig;
use rmp_wire::{ReadSlice, Sink};

// Writes the fields of a struct, each of which may borrow.
#[inline(always)]
fn put_line<
    W: Sink,
    C: SerializerConfig,
    E1: Serialize,
    E2: Serialize,
    E3: Serialize,
    E4: Serialize,
>(
    se: &mut Serializer<W, C>,
    first: &E1,
    second: &E2,
    third: &E3,
    fourth: &E4,
) -> Result<(), rmp_encode::Error>
    ensures writes { WritesTree W.Sink (one_of (E1.takes_memory (settings_of se.old)
        ∷ (E2.takes_memory (settings_of se.old) ∷ (E3.takes_memory (settings_of se.old) ∷ (E4.takes_memory (settings_of se.old) ∷ [])))) || W.takes_memory)
        (tree_of (settings_of se.old) (structure_of ((codes "level", E1.data_of first.now (settings_of se.old).human)
        ∷ ((codes "text", E2.data_of second.now (settings_of se.old).human)
        ∷ ((codes "tags", E3.data_of third.now (settings_of se.old).human) ∷ ((codes "source", E4.data_of fourth.now (settings_of se.old).human) ∷ []))))))
        (sink_of se.old) (sink_of se.new) result }
    ensures keeps { Keeps W.Sink se.old se.new }
    ensures error { IfErr result (OfParts ⊥ (E1.refuses first.now ∷ (E2.refuses second.now ∷ (E3.refuses third.now ∷ (E4.refuses fourth.now ∷ []))))) }
    ensures value { OnOk result (E1.is_value first.now × E2.is_value second.now × E3.is_value third.now × E4.is_value fourth.now) }
{
    let parts = rmp_encode::Four {
        first,
        second,
        third,
        fourth,
    };
    se.serialize_fields("Line", &["level", "text", "tags", "source"], &parts)
}

impl<'a> Serialize for Line<'a> {
    ghost data_of = { λ v human. structure_of ((codes "level", ⟦<u8 as Serialize>⟧.data_of v.level human)
        ∷ ((codes "text", ⟦<&'a str as Serialize>⟧.data_of v.text human)
        ∷ ((codes "tags", ⟦<Vec<&'a str> as Serialize>⟧.data_of v.tags human)
        ∷ ((codes "source", ⟦<Option<&'a str> as Serialize>⟧.data_of v.source human) ∷ [])))) };

    ghost is_value = { λ v. ⟦<u8 as Serialize>⟧.is_value v.level × ⟦<&'a str as Serialize>⟧.is_value v.text × ⟦<Vec<&'a str> as Serialize>⟧.is_value v.tags
        × ⟦<Option<&'a str> as Serialize>⟧.is_value v.source };

    ghost takes_memory = { λ s. one_of (⟦<u8 as Serialize>⟧.takes_memory s
        ∷ (⟦<&'a str as Serialize>⟧.takes_memory s ∷ (⟦<Vec<&'a str> as Serialize>⟧.takes_memory s
        ∷ (⟦<Option<&'a str> as Serialize>⟧.takes_memory s ∷ [])))) };

    ghost refuses = { λ v. OfParts ⊥ (⟦<u8 as Serialize>⟧.refuses v.level
        ∷ (⟦<&'a str as Serialize>⟧.refuses v.text ∷ (⟦<Vec<&'a str> as Serialize>⟧.refuses v.tags
        ∷ (⟦<Option<&'a str> as Serialize>⟧.refuses v.source ∷ [])))) };

    fn serialize<W: Sink, C: SerializerConfig>(
        &self,
        se: &mut Serializer<W, C>,
    ) -> Result<(), rmp_encode::Error> {
        put_line(se, &self.level, &self.text, &self.tags, &self.source)
    }

    #[tactic(auto, using(rmp_encode::proofs::Fields::structure_no_byte))]
    fn as_u8(&self, _human: bool) -> Option<u8> {
        None
    }
}

impl<'de, R: ReadSlice<'de>> Deserialize<'de, R> for Line<'de> {
    ghost reads = { λ human lends m v. OfFields (codes "level" ∷ (codes "text" ∷ (codes "tags" ∷ (codes "source" ∷ []))))
        (Field (λ j. ⟦<u8 as Deserialize<'de, R>>⟧.reads human lends j v.level) (Absent ⟦<u8 as Deserialize<'de, R>>⟧.absent v.level)
        (Field (λ j. ⟦<&'de str as Deserialize<'de, R>>⟧.reads human lends j v.text) (Absent ⟦<&'de str as Deserialize<'de, R>>⟧.absent v.text)
        (Field (λ j. ⟦<Vec<&'de str> as Deserialize<'de, R>>⟧.reads human lends j v.tags) (Absent ⟦<Vec<&'de str> as Deserialize<'de, R>>⟧.absent v.tags)
        (Field (λ j. ⟦<Option<&'de str> as Deserialize<'de, R>>⟧.reads human lends j v.source)
        (Absent ⟦<Option<&'de str> as Deserialize<'de, R>>⟧.absent v.source) NoField)))) m };

    ghost absent = { None };

    ghost refuses = { RefusesFields (codes "level" ∷ (codes "text" ∷ (codes "tags" ∷ (codes "source" ∷ []))))
        (is_none ⟦<u8 as Deserialize<'de, R>>⟧.absent ∷ (is_none ⟦<&'de str as Deserialize<'de, R>>⟧.absent
        ∷ (is_none ⟦<Vec<&'de str> as Deserialize<'de, R>>⟧.absent ∷ (is_none ⟦<Option<&'de str> as Deserialize<'de, R>>⟧.absent ∷ []))))
        (part_of ⟦<u8 as Deserialize<'de, R>>⟧.reads ⟦<u8 as Deserialize<'de, R>>⟧.refuses
        ∷ (part_of ⟦<&'de str as Deserialize<'de, R>>⟧.reads ⟦<&'de str as Deserialize<'de, R>>⟧.refuses
        ∷ (part_of ⟦<Vec<&'de str> as Deserialize<'de, R>>⟧.reads ⟦<Vec<&'de str> as Deserialize<'de, R>>⟧.refuses
        ∷ (part_of ⟦<Option<&'de str> as Deserialize<'de, R>>⟧.reads ⟦<Option<&'de str> as Deserialize<'de, R>>⟧.refuses ∷ [])))) };

    #[inline(always)]
    fn deserialize<C: SerializerConfig>(
        de: &mut Deserializer<R, C>,
    ) -> Result<Line<'de>, rmp_decode::Error> {
        let read: Result<(u8, &'de str, Vec<&'de str>, Option<&'de str>, ()), rmp_decode::Error> =
            rmp_decode::read_fields_4(de, &["level", "text", "tags", "source"]);
        match read {
            Ok(parts) => {
                let (level, text, tags, source, ()) = parts;
                return Ok(Line {
                    level,
                    text,
                    tags,
                    source,
                });
            }
            Err(e) => return Err(e),
        }
    }

    fn missing() -> Option<Line<'de>> {
        None
    }
}

impl<'de, R: ReadSlice<'de>> RoundTrip<'de, R> for Line<'de> {
    ghost borrows = { true };

    ghost has_data = { λ human v. structure_all ((codes "level", ⟦<u8 as Serialize>⟧.data_of v.level human)
        ∷ ((codes "text", ⟦<&'de str as Serialize>⟧.data_of v.text human)
        ∷ ((codes "tags", ⟦<Vec<&'de str> as Serialize>⟧.data_of v.tags human)
        ∷ ((codes "source", ⟦<Option<&'de str> as Serialize>⟧.data_of v.source human) ∷ [])))) (
          refl,
          (
            refl,
            (
              (slice_some _ (each_some (λ x. ⟦<&'de str as Serialize>⟧.data_of x human) (λ x1. refl) v.tags.items)),
              ((option_some (λ x. ⟦<&'de str as Serialize>⟧.data_of x human) (λ x2. refl) v.source), tt),
            ),
          ),
        ) };

    ghost round = { λ lent s v fits. structure_row s (codes "level" ∷ (codes "text" ∷ (codes "tags" ∷ (codes "source" ∷ [])))) _ _ refl
        (fields_cons s (codes "level") _ _ _ (λ j. ⟦<u8 as Deserialize<'de, R>>⟧.reads s.human R.lends j v.level)
        (Absent ⟦<u8 as Deserialize<'de, R>>⟧.absent v.level) _ (byte_row s v.level fits.0)
        (fields_cons s (codes "text") _ _ _ (λ j. ⟦<&'de str as Deserialize<'de, R>>⟧.reads s.human R.lends j v.text)
        (Absent ⟦<&'de str as Deserialize<'de, R>>⟧.absent v.text) _ (str_row s v.text.now _ (lent refl) fits.1)
        (fields_cons s (codes "tags") _ _ _ (λ j. ⟦<Vec<&'de str> as Deserialize<'de, R>>⟧.reads s.human R.lends j v.tags)
        (Absent ⟦<Vec<&'de str> as Deserialize<'de, R>>⟧.absent v.tags) _
        (slice_row s _ (λ ms. ReadsEach (⟦<&'de str as Deserialize<'de, R>>⟧.reads s.human R.lends) ms v.tags.items)
        (each_row s (λ x. ⟦<&'de str as Serialize>⟧.data_of x s.human) ⟦<&'de str as Serialize>⟧.is_value
        (⟦<&'de str as Deserialize<'de, R>>⟧.reads s.human R.lends) (λ x3 h3. (str_row s x3.now _ (lent refl) h3)) v.tags.items fits.2))
        (fields_cons s (codes "source") _ _ _ (λ j. ⟦<Option<&'de str> as Deserialize<'de, R>>⟧.reads s.human R.lends j v.source)
        (Absent ⟦<Option<&'de str> as Deserialize<'de, R>>⟧.absent v.source) _
        (option_row s (λ x. ⟦<&'de str as Serialize>⟧.data_of x s.human) ⟦<&'de str as Serialize>⟧.is_value
        (⟦<&'de str as Deserialize<'de, R>>⟧.reads s.human R.lends) (λ x5. text_other s x5.now) (λ x4 h4. (str_row s x4.now _ (lent refl) h4)) v.source
        fits.3) (fields_none s))))) };

    ghost same = { λ v w. ⟦<u8 as RoundTrip<'de, R>>⟧.same v.level w.level × ⟦<&'de str as RoundTrip<'de, R>>⟧.same v.text w.text
        × ⟦<Vec<&'de str> as RoundTrip<'de, R>>⟧.same v.tags w.tags × ⟦<Option<&'de str> as RoundTrip<'de, R>>⟧.same v.source w.source };

    ghost alike = { λ human v w h i. structure_of ((codes "level", (⟦<u8 as Serialize>⟧.data_of (h.0 i) human))
        ∷ ((codes "text", (text_alike v.text.now w.text.now h.1 i))
        ∷ ((
          codes "tags",
          (slice_alike ⟦<&'de str as RoundTrip<'de, R>>⟧.same (λ x. ⟦<&'de str as Serialize>⟧.data_of x human)
              (λ x4 yx4 h4 i. (text_alike x4.now yx4.now h4 i)) v.tags.items w.tags.items h.2 i),
        )
        ∷ ((
          codes "source",
          (option_alike ⟦<&'de str as RoundTrip<'de, R>>⟧.same (λ x. ⟦<&'de str as Serialize>⟧.data_of x human)
              (λ x5 yx5 h5 i. (text_alike x5.now yx5.now h5 i)) v.source w.source h.3 i),
        ) ∷ [])))) };

    ghost only = { λ s v fits. lowers_then s _ _ (λ m. (w : _) → (⟦<Line<'de> as Deserialize<'de, R>>⟧.reads s.human R.lends) m w
        → ⟦<u8 as RoundTrip<'de, R>>⟧.same v.level w.level × ⟦<&'de str as RoundTrip<'de, R>>⟧.same v.text w.text
        × ⟦<Vec<&'de str> as RoundTrip<'de, R>>⟧.same v.tags w.tags × ⟦<Option<&'de str> as RoundTrip<'de, R>>⟧.same v.source w.source)
        (structure_row s (codes "level" ∷ (codes "text" ∷ (codes "tags" ∷ (codes "source" ∷ [])))) _ _ refl
        (fields_cons s (codes "level") _ _ _ (λ j. Only (⟦<u8 as Deserialize<'de, R>>⟧.reads s.human R.lends) ⟦<u8 as RoundTrip<'de, R>>⟧.same j v.level) ⊥
        _ (byte_only s v.level) (fields_cons s (codes "text") _ _ _
        (λ j. Only (⟦<&'de str as Deserialize<'de, R>>⟧.reads s.human R.lends) ⟦<&'de str as RoundTrip<'de, R>>⟧.same j v.text) ⊥ _
        (str_only s (λ w. w.now) v.text.now R.lends) (fields_cons s (codes "tags") _ _ _
        (λ j. Only (⟦<Vec<&'de str> as Deserialize<'de, R>>⟧.reads s.human R.lends) ⟦<Vec<&'de str> as RoundTrip<'de, R>>⟧.same j v.tags) ⊥ _
        (list_only s _ (λ w. w.items) (⟦<&'de str as Deserialize<'de, R>>⟧.reads s.human R.lends) ⟦<&'de str as RoundTrip<'de, R>>⟧.same v.tags.items
        (slice_row s _ (λ ms. ReadsEach (Only (⟦<&'de str as Deserialize<'de, R>>⟧.reads s.human R.lends) ⟦<&'de str as RoundTrip<'de, R>>⟧.same) ms
        v.tags.items) (each_row s (λ x. ⟦<&'de str as Serialize>⟧.data_of x s.human) ⟦<&'de str as Serialize>⟧.is_value
        (Only (⟦<&'de str as Deserialize<'de, R>>⟧.reads s.human R.lends) ⟦<&'de str as RoundTrip<'de, R>>⟧.same)
        (λ x1 h1. (str_only s (λ w. w.now) x1.now R.lends)) v.tags.items fits.2)))
        (fields_cons s (codes "source") _ _ _ (λ j. Only (⟦<Option<&'de str> as Deserialize<'de, R>>⟧.reads s.human R.lends)
        ⟦<Option<&'de str> as RoundTrip<'de, R>>⟧.same j v.source) ⊥ _
        (option_only s _ (⟦<&'de str as Deserialize<'de, R>>⟧.reads s.human R.lends) ⟦<&'de str as RoundTrip<'de, R>>⟧.same v.source
        (option_row s (λ x. ⟦<&'de str as Serialize>⟧.data_of x s.human) ⟦<&'de str as Serialize>⟧.is_value
        (Only (⟦<&'de str as Deserialize<'de, R>>⟧.reads s.human R.lends) ⟦<&'de str as RoundTrip<'de, R>>⟧.same) (λ x3. text_other s x3.now)
        (λ x2 h2. (str_only s (λ w. w.now) x2.now R.lends)) v.source fits.3)) (fields_none s))))))
        (λ m q w r. fields_both (codes "level" ∷ (codes "text" ∷ (codes "tags" ∷ (codes "source" ∷ [])))) _ _ _ m q r
        (λ ks i j. let x = field_only (⟦<u8 as Deserialize<'de, R>>⟧.reads s.human R.lends) ⟦<u8 as RoundTrip<'de, R>>⟧.same v.level w.level _ _ _ _
        (field_only (⟦<&'de str as Deserialize<'de, R>>⟧.reads s.human R.lends) ⟦<&'de str as RoundTrip<'de, R>>⟧.same v.text w.text _ _ _ _
        (field_only (⟦<Vec<&'de str> as Deserialize<'de, R>>⟧.reads s.human R.lends) ⟦<Vec<&'de str> as RoundTrip<'de, R>>⟧.same v.tags w.tags _ _ _ _
        (last_field (⟦<Option<&'de str> as Deserialize<'de, R>>⟧.reads s.human R.lends) ⟦<Option<&'de str> as RoundTrip<'de, R>>⟧.same v.source w.source
        _))) ks i j in (x.0, x.1.0, x.1.1.0, x.1.1.1))) };
}

impl<'de> NeverNil for Line<'de> {
    ghost never_nil = { λ s v. structure_other s _ };
}

impl<'de, R: ReadSlice<'de>> EndsInside<'de, R> for Line<'de> {
    ghost ends_inside = { fields_inside _ _ _ (
      number_inside,
      (
        str_inside,
        (
          (each_inside ⟦<&'de str as Deserialize<'de, R>>⟧.reads ⟦<&'de str as Deserialize<'de, R>>⟧.refuses str_inside),
          ((option_inside ⟦<&'de str as Deserialize<'de, R>>⟧.refuses str_inside), tt),
        ),
      ),
    ) };
}

impl<'a> Serialize for Label<'a> {
    ghost data_of = { λ v human. wrapped_of (⟦<&'a str as Serialize>⟧.data_of v.0 human) };

    ghost is_value = { λ v. ⟦<&'a str as Serialize>⟧.is_value v.0 };

    ghost takes_memory = { λ s. ⟦<&'a str as Serialize>⟧.takes_memory s };

    ghost refuses = { λ v. ⟦<&'a str as Serialize>⟧.refuses v.0 };

    fn serialize<W: Sink, C: SerializerConfig>(
        &self,
        se: &mut Serializer<W, C>,
    ) -> Result<(), rmp_encode::Error> {
        se.serialize_newtype_struct("Label", &self.0)
    }

    #[tactic(auto, using(rmp_encode::proofs::Wrapped::wrapped_no_byte))]
    fn as_u8(&self, _human: bool) -> Option<u8> {
        None
    }
}

impl<'de, R: ReadSlice<'de>> Deserialize<'de, R> for Label<'de> {
    ghost reads = { λ human lends m v. ⟦<&'de str as Deserialize<'de, R>>⟧.reads human lends m v.0 };

    ghost absent = { None };

    ghost refuses = { ⟦<&'de str as Deserialize<'de, R>>⟧.refuses };

    #[inline(always)]
    fn deserialize<C: SerializerConfig>(
        de: &mut Deserializer<R, C>,
    ) -> Result<Label<'de>, rmp_decode::Error> {
        match de.deserialize_newtype_struct("Label") {
            Ok(first) => return Ok(Label(first)),
            Err(e) => return Err(e),
        }
    }

    fn missing() -> Option<Label<'de>> {
        None
    }
}

impl<'de, R: ReadSlice<'de>> RoundTrip<'de, R> for Label<'de> {
    ghost borrows = { true };

    ghost has_data = { λ human v. newtype_some (⟦<&'de str as Serialize>⟧.data_of v.0 human) refl };

    ghost round = { λ lent s v fits. newtype_row s (⟦<&'de str as Serialize>⟧.data_of v.0 s.human)
        (λ j. ⟦<&'de str as Deserialize<'de, R>>⟧.reads s.human R.lends j v.0) (str_row s v.0.now _ (lent refl) fits) };

    ghost same = { λ v w. ⟦<&'de str as RoundTrip<'de, R>>⟧.same v.0 w.0 };

    ghost alike = { λ human v w h i. wrapped_of (text_alike v.0.now w.0.now h i) };

    ghost only = { λ s v fits. lowers_then s (wrapped_of (⟦<&'de str as Serialize>⟧.data_of v.0 s.human))
        (λ j. Only (⟦<&'de str as Deserialize<'de, R>>⟧.reads s.human R.lends) ⟦<&'de str as RoundTrip<'de, R>>⟧.same j v.0) (λ m. (w : _)
        → (⟦<Label<'de> as Deserialize<'de, R>>⟧.reads s.human R.lends) m w
        → ⟦<&'de str as RoundTrip<'de, R>>⟧.same v.0 w.0) (newtype_row s (⟦<&'de str as Serialize>⟧.data_of v.0 s.human)
        (λ j. Only (⟦<&'de str as Deserialize<'de, R>>⟧.reads s.human R.lends) ⟦<&'de str as RoundTrip<'de, R>>⟧.same j v.0)
        (str_only s (λ w. w.now) v.0.now R.lends)) (λ m q w r. q w.0 r) };
}

impl<'de> NeverNil for Label<'de> {
    ghost never_nil = { λ s v. newtype_other s (⟦<&'de str as Serialize>⟧.data_of v.0 s.human) (text_other s v.0.now) };
}

impl<'de, R: ReadSlice<'de>> EndsInside<'de, R> for Label<'de> {
    ghost ends_inside = { str_inside };
}

// Writes the fields of a struct, each of which may borrow.
#[inline(always)]
fn put_piece<W: Sink, C: SerializerConfig, E1: Serialize, E2: Serialize>(
    se: &mut Serializer<W, C>,
    first: &E1,
    second: &E2,
) -> Result<(), rmp_encode::Error>
    ensures writes { WritesTree W.Sink (one_of (E1.takes_memory (settings_of se.old) ∷ (E2.takes_memory (settings_of se.old) ∷ [])) || W.takes_memory)
        (tree_of (settings_of se.old) (sequence_of (E1.data_of first.now (settings_of se.old).human
        ∷ (E2.data_of second.now (settings_of se.old).human ∷ [])))) (sink_of se.old) (sink_of se.new) result }
    ensures keeps { Keeps W.Sink se.old se.new }
    ensures error { IfErr result (OfParts ⊥ (E1.refuses first.now ∷ (E2.refuses second.now ∷ []))) }
    ensures value { OnOk result (E1.is_value first.now × E2.is_value second.now) }
{
    let parts = rmp_encode::Both { first, second };
    se.serialize_elements("Piece", &parts)
}

impl<'a> Serialize for Piece<'a> {
    ghost data_of = { λ v human. sequence_of (⟦<Bytes<'a> as Serialize>⟧.data_of v.0 human ∷ (⟦<u32 as Serialize>⟧.data_of v.1 human ∷ [])) };

    ghost is_value = { λ v. ⟦<Bytes<'a> as Serialize>⟧.is_value v.0 × ⟦<u32 as Serialize>⟧.is_value v.1 };

    ghost takes_memory = { λ s. one_of (⟦<Bytes<'a> as Serialize>⟧.takes_memory s ∷ (⟦<u32 as Serialize>⟧.takes_memory s ∷ [])) };

    ghost refuses = { λ v. OfParts ⊥ (⟦<Bytes<'a> as Serialize>⟧.refuses v.0 ∷ (⟦<u32 as Serialize>⟧.refuses v.1 ∷ [])) };

    fn serialize<W: Sink, C: SerializerConfig>(
        &self,
        se: &mut Serializer<W, C>,
    ) -> Result<(), rmp_encode::Error> {
        put_piece(se, &self.0, &self.1)
    }

    #[tactic(auto, using(rmp_encode::proofs::Lists::sequence_no_byte))]
    fn as_u8(&self, _human: bool) -> Option<u8> {
        None
    }
}

impl<'de, R: ReadSlice<'de>> Deserialize<'de, R> for Piece<'de> {
    ghost reads = { λ human lends m v. OfRow (AndThen (λ j. ⟦<Bytes<'de> as Deserialize<'de, R>>⟧.reads human lends j v.0)
        (AndThen (λ j. ⟦<u32 as Deserialize<'de, R>>⟧.reads human lends j v.1) NoMore)) m };

    ghost absent = { None };

    ghost refuses = { RefusesTuple (part_of ⟦<Bytes<'de> as Deserialize<'de, R>>⟧.reads ⟦<Bytes<'de> as Deserialize<'de, R>>⟧.refuses
        ∷ (part_of ⟦<u32 as Deserialize<'de, R>>⟧.reads ⟦<u32 as Deserialize<'de, R>>⟧.refuses ∷ [])) };

    #[inline(always)]
    fn deserialize<C: SerializerConfig>(
        de: &mut Deserializer<R, C>,
    ) -> Result<Piece<'de>, rmp_decode::Error> {
        let read: Result<(Bytes<'de>, u32), rmp_decode::Error> = Deserialize::deserialize(de);
        match read {
            Ok(parts) => {
                let (first, second) = parts;
                return Ok(Piece(first, second));
            }
            Err(e) => return Err(e),
        }
    }

    fn missing() -> Option<Piece<'de>> {
        None
    }
}

impl<'de, R: ReadSlice<'de>> RoundTrip<'de, R> for Piece<'de> {
    ghost borrows = { true };

    ghost has_data = { λ human v. sequence_all (⟦<Bytes<'de> as Serialize>⟧.data_of v.0 human ∷ (⟦<u32 as Serialize>⟧.data_of v.1 human ∷ []))
        (refl, (refl, tt)) };

    ghost round = { λ lent s v fits. sequence_row s _ _
        (rows_cons s _ _ (λ j. ⟦<Bytes<'de> as Deserialize<'de, R>>⟧.reads s.human R.lends j v.0) _ (bytes_row s (bytes_of v.0) _ (lent refl))
        (rows_cons s _ _ (λ j. ⟦<u32 as Deserialize<'de, R>>⟧.reads s.human R.lends j v.1) _ (unsigned_row_32 s v.1 fits.1) (rows_none s))) };

    ghost same = { λ v w. ⟦<Bytes<'de> as RoundTrip<'de, R>>⟧.same v.0 w.0 × ⟦<u32 as RoundTrip<'de, R>>⟧.same v.1 w.1 };

    ghost alike = { λ human v w h i. sequence_of ((bytes_alike (bytes_of v.0) (bytes_of w.0) h.0 i) ∷ ((⟦<u32 as Serialize>⟧.data_of (h.1 i) human) ∷ [])) };

    ghost only = { λ s v fits. lowers_then s _ _ (λ m. (w : _) → (⟦<Piece<'de> as Deserialize<'de, R>>⟧.reads s.human R.lends) m w
        → ⟦<Bytes<'de> as RoundTrip<'de, R>>⟧.same v.0 w.0 × ⟦<u32 as RoundTrip<'de, R>>⟧.same v.1 w.1)
        (sequence_row s _ _ (rows_cons s _ _ (λ j. Only (⟦<Bytes<'de> as Deserialize<'de, R>>⟧.reads s.human R.lends)
        ⟦<Bytes<'de> as RoundTrip<'de, R>>⟧.same j v.0) _ (bytes_only s (λ w. bytes_of w) (bytes_of v.0) R.lends)
        (rows_cons s _ _ (λ j. Only (⟦<u32 as Deserialize<'de, R>>⟧.reads s.human R.lends) ⟦<u32 as RoundTrip<'de, R>>⟧.same j v.1) _
        (unsigned_only s 4294967295 v.1) (rows_none s)))) (λ m q w r. row_both _ _ _ m q r
        (item_only (⟦<Bytes<'de> as Deserialize<'de, R>>⟧.reads s.human R.lends) ⟦<Bytes<'de> as RoundTrip<'de, R>>⟧.same v.0 w.0 _ _ _
        (last_only (⟦<u32 as Deserialize<'de, R>>⟧.reads s.human R.lends) ⟦<u32 as RoundTrip<'de, R>>⟧.same v.1 w.1))) };
}

impl<'de> NeverNil for Piece<'de> {
    ghost never_nil = { λ s v. sequence_other s _ };
}

impl<'de, R: ReadSlice<'de>> EndsInside<'de, R> for Piece<'de> {
    ghost ends_inside = { tuple_inside (part_of ⟦<Bytes<'de> as Deserialize<'de, R>>⟧.reads ⟦<Bytes<'de> as Deserialize<'de, R>>⟧.refuses
        ∷ (part_of ⟦<u32 as Deserialize<'de, R>>⟧.reads ⟦<u32 as Deserialize<'de, R>>⟧.refuses ∷ [])) (bytes_inside, (number_inside, tt)) };
}

// Writes the fields of a variant, each of which may borrow.
#[inline(always)]
fn put_event_moved<W: Sink, C: SerializerConfig, E1: Serialize, E2: Serialize>(
    se: &mut Serializer<W, C>,
    first: &E1,
    second: &E2,
) -> Result<(), rmp_encode::Error>
    ensures writes { WritesTree W.Sink (one_of (E1.takes_memory (settings_of se.old) ∷ (E2.takes_memory (settings_of se.old) ∷ [])) || W.takes_memory)
        (tree_of (settings_of se.old) (tuple_variant_of (codes "Moved")
        (E1.data_of first.now (settings_of se.old).human ∷ (E2.data_of second.now (settings_of se.old).human ∷ [])))) (sink_of se.old) (sink_of se.new)
        result }
    ensures keeps { Keeps W.Sink se.old se.new }
    ensures error { IfErr result (OfParts ⊥ (E1.refuses first.now ∷ (E2.refuses second.now ∷ []))) }
    ensures value { OnOk result (E1.is_value first.now × E2.is_value second.now) }
{
    let parts = rmp_encode::Both { first, second };
    se.serialize_tuple_variant_of("Event", 2, "Moved", &parts)
}

// Writes the fields of a variant, each of which may borrow.
#[inline(always)]
fn put_event_put<W: Sink, C: SerializerConfig, E1: Serialize, E2: Serialize>(
    se: &mut Serializer<W, C>,
    first: &E1,
    second: &E2,
) -> Result<(), rmp_encode::Error>
    ensures writes { WritesTree W.Sink (one_of (E1.takes_memory (settings_of se.old) ∷ (E2.takes_memory (settings_of se.old) ∷ [])) || W.takes_memory)
        (tree_of (settings_of se.old) (struct_variant_of (codes "Put")
        ((codes "key", E1.data_of first.now (settings_of se.old).human) ∷ ((codes "size", E2.data_of second.now (settings_of se.old).human) ∷ []))))
        (sink_of se.old) (sink_of se.new) result }
    ensures keeps { Keeps W.Sink se.old se.new }
    ensures error { IfErr result (OfParts ⊥ (E1.refuses first.now ∷ (E2.refuses second.now ∷ []))) }
    ensures value { OnOk result (E1.is_value first.now × E2.is_value second.now) }
{
    let parts = rmp_encode::Both { first, second };
    se.serialize_struct_variant_of("Event", 3, "Put", &["key", "size"], &parts)
}

impl<'a, T: Serialize> Serialize for Event<'a, T> {
    ghost data_of = { λ v human. elim v [
      | the_event.Started ↦ Some (unit_variant (codes "Started"))
      | the_event.Said a1 ↦ newtype_variant_of (codes "Said")
          (⟦<&'a str as Serialize>⟧.data_of a1 human)
      | the_event.Moved a1 a2 ↦ tuple_variant_of (codes "Moved")
          (⟦<i16 as Serialize>⟧.data_of a1 human ∷ (⟦<Label<'a> as Serialize>⟧.data_of a2 human ∷ []))
      | the_event.Put a1 a2 ↦ struct_variant_of (codes "Put")
          ((codes "key", ⟦<&'a str as Serialize>⟧.data_of a1 human) ∷ ((codes "size", ⟦<u32 as Serialize>⟧.data_of a2 human) ∷ []))
      | the_event.Held a1 ↦
          newtype_variant_of (codes "Held") (T.data_of a1 human)
    ] };

    ghost is_value = { λ v. elim v [
      | the_event.Started ↦ ⊤
      | the_event.Said a1 ↦ ⟦<&'a str as Serialize>⟧.is_value a1
      | the_event.Moved a1 a2 ↦
          ⟦<i16 as Serialize>⟧.is_value a1 × ⟦<Label<'a> as Serialize>⟧.is_value a2
      | the_event.Put a1 a2 ↦ ⟦<&'a str as Serialize>⟧.is_value a1
          × ⟦<u32 as Serialize>⟧.is_value a2
      | the_event.Held a1 ↦ T.is_value a1
    ] };

    ghost takes_memory = { λ s. one_of (false ∷ (⟦<&'a str as Serialize>⟧.takes_memory s
        ∷ (one_of (⟦<i16 as Serialize>⟧.takes_memory s ∷ (⟦<Label<'a> as Serialize>⟧.takes_memory s ∷ []))
        ∷ (one_of (⟦<&'a str as Serialize>⟧.takes_memory s ∷ (⟦<u32 as Serialize>⟧.takes_memory s ∷ [])) ∷ (T.takes_memory s ∷ []))))) };

    ghost refuses = { λ v. elim v [
      | the_event.Started ↦ OfSink
      | the_event.Said a1 ↦ OfParts ⊥ (⟦<&'a str as Serialize>⟧.refuses a1 ∷ [])
      | the_event.Moved
          a1 a2 ↦ OfParts ⊥ (⟦<i16 as Serialize>⟧.refuses a1 ∷ (⟦<Label<'a> as Serialize>⟧.refuses a2 ∷ []))
      | the_event.Put a1 a2 ↦ OfParts ⊥
          (⟦<&'a str as Serialize>⟧.refuses a1 ∷ (⟦<u32 as Serialize>⟧.refuses a2 ∷ []))
      | the_event.Held a1 ↦ OfParts ⊥ (T.refuses a1 ∷ [])
    ] };

    #[tactic(auto, unfolding(rmp_encode::specs::Data::lower))]
    fn serialize<W: Sink, C: SerializerConfig>(
        &self,
        se: &mut Serializer<W, C>,
    ) -> Result<(), rmp_encode::Error> {
        match self {
            Event::Started => se.serialize_unit_variant("Event", 0, "Started"),
            Event::Said(first) => se.serialize_newtype_variant("Event", 1, "Said", first),
            Event::Moved(first, second) => { put_event_moved(se, first, second) }
            Event::Put { key, size } => { put_event_put(se, key, size) }
            Event::Held(first) => se.serialize_newtype_variant("Event", 4, "Held", first),
        }
    }

    fn as_u8(&self, _human: bool) -> Option<u8> {
        match self {
            Event::Started => None,
            Event::Said(_) => None,
            Event::Moved(_, _) => None,
            Event::Put { .. } => None,
            Event::Held(_) => None,
        }
    }
}

impl<'de, R: ReadSlice<'de>, T: Deserialize<'de, R>> Deserialize<'de, R> for Event<'de, T> {
    ghost reads = { λ human lends m v. OfVariant (codes "Started" ∷ (codes "Said" ∷ (codes "Moved" ∷ (codes "Put" ∷ (codes "Held" ∷ [])))))
        (Case (λ c. (v ≡ the_event.Started) × Bare c) (Case
        (λ c. (a1 : _) × (v ≡ the_event.Said a1) × Content (λ k. ⟦<&'de str as Deserialize<'de, R>>⟧.reads human lends k a1) c)
        (Case (λ c. (a1 : _) × (a2 : _) × (v ≡ the_event.Moved a1 a2)
        × Content (λ k. OfRow (AndThen (λ j. ⟦<i16 as Deserialize<'de, R>>⟧.reads human lends j a1)
        (AndThen (λ j. ⟦<Label<'de> as Deserialize<'de, R>>⟧.reads human lends j a2) NoMore)) k) c)
        (Case (λ c. (a1 : _) × (a2 : _) × (v ≡ the_event.Put a1 a2)
        × Content (λ k. OfFields (codes "key" ∷ (codes "size" ∷ []))
        (Field (λ j. ⟦<&'de str as Deserialize<'de, R>>⟧.reads human lends j a1) (Absent ⟦<&'de str as Deserialize<'de, R>>⟧.absent a1)
        (Field (λ j. ⟦<u32 as Deserialize<'de, R>>⟧.reads human lends j a2) (Absent ⟦<u32 as Deserialize<'de, R>>⟧.absent a2) NoField)) k) c)
        (Case (λ c. (a1 : _) × (v ≡ the_event.Held a1) × Content (λ k. T.reads human lends k a1) c) NoCase))))) m };

    ghost absent = { None };

    ghost refuses = { RefusesEnum (codes "Started" ∷ (codes "Said" ∷ (codes "Moved" ∷ (codes "Put" ∷ (codes "Held" ∷ [])))))
        (no_content ∷ (with_content (⟦<&'de str as Deserialize<'de, R>>⟧.refuses)
        ∷ (with_content (RefusesTuple (part_of ⟦<i16 as Deserialize<'de, R>>⟧.reads ⟦<i16 as Deserialize<'de, R>>⟧.refuses
        ∷ (part_of ⟦<Label<'de> as Deserialize<'de, R>>⟧.reads ⟦<Label<'de> as Deserialize<'de, R>>⟧.refuses ∷ [])))
        ∷ (with_content (RefusesFields (codes "key" ∷ (codes "size" ∷ [])) ⟦<(&'de str, (u32, ())) as ReadFields<'de, R>>⟧.needed
        ⟦<(&'de str, (u32, ())) as ReadFields<'de, R>>⟧.parts) ∷ (with_content (T.refuses) ∷ []))))) };

    fn deserialize<C: SerializerConfig>(
        de: &mut Deserializer<R, C>,
    ) -> Result<Event<'de, T>, rmp_decode::Error> {
        match de.deserialize_enum(&["Started", "Said", "Moved", "Put", "Held"]) {
            Ok((0, variant)) => match variant.unit_variant() {
                Ok(()) => return Ok(Event::Started),
                Err(e) => return Err(e),
            },
            Ok((1, variant)) => match variant.newtype_variant() {
                Ok(first) => return Ok(Event::Said(first)),
                Err(e) => return Err(e),
            },
            Ok((2, variant)) => match variant.newtype_variant() {
                Ok(parts) => {
                    let (first, second) = parts;
                    return Ok(Event::Moved(first, second));
                }
                Err(e) => return Err(e),
            },
            Ok((3, variant)) => match variant.fields_variant(&["key", "size"]) {
                Ok(parts) => {
                    let (key, (size, ())) = parts;
                    return Ok(Event::Put { key, size });
                }
                Err(e) => return Err(e),
            },
            Ok((_, variant)) => match variant.newtype_variant() {
                Ok(first) => return Ok(Event::Held(first)),
                Err(e) => return Err(e),
            },
            Err(e) => return Err(e),
        }
    }

    fn missing() -> Option<Event<'de, T>> {
        None
    }
}

impl<'de, R: ReadSlice<'de>, T: RoundTrip<'de, R>> RoundTrip<'de, R> for Event<'de, T> {
    ghost borrows = { true };

    ghost has_data = { λ human. elim [
      | the_event.Started ↦ refl
      | the_event.Said a1 ↦ newtype_variant_some (codes "Said")
          (⟦<&'de str as Serialize>⟧.data_of a1 human) refl
      | the_event.Moved a1 a2 ↦ tuple_variant_all (codes "Moved")
          (⟦<i16 as Serialize>⟧.data_of a1 human ∷ (⟦<Label<'de> as Serialize>⟧.data_of a2 human ∷ []))
          (refl, ((newtype_some (⟦<&'de str as Serialize>⟧.data_of a2.0 human) refl), tt))
      | the_event.Put a1 a2 ↦ struct_variant_all (codes "Put")
          ((codes "key", ⟦<&'de str as Serialize>⟧.data_of a1 human) ∷ ((codes "size", ⟦<u32 as Serialize>⟧.data_of a2 human) ∷ [])) (refl, (refl, tt))
      | the_event.Held a1 ↦ newtype_variant_some (codes "Held") (T.data_of a1 human) (T.has_data human a1)
    ] };

    ghost round = { λ lent s. let names = codes "Started" ∷ (codes "Said" ∷ (codes "Moved" ∷ (codes "Put" ∷ (codes "Held" ∷ []))))
        in elim [
          | the_event.Started ↦ λ fits. bare_row s names (codes "Started") 0 refl _ (refl, tt)
          | the_event.Said a1 ↦ λ fits. newtype_variant_row s
              names (codes "Said") 1 refl _ _ (λ j. ⟦<&'de str as Deserialize<'de, R>>⟧.reads s.human R.lends j a1) (λ m h. (a1, refl, h))
              (str_row s a1.now _ (lent refl) fits)
          | the_event.Moved a1 a2 ↦ λ fits. tuple_variant_row s names (codes "Moved") 2 refl _ _ _
              (λ m h. (a1, a2, refl, h)) (rows_cons s _ _ (λ j. ⟦<i16 as Deserialize<'de, R>>⟧.reads s.human R.lends j a1) _ (signed_row_16 s a1 fits.0)
              (rows_cons s _ _ (λ j. ⟦<Label<'de> as Deserialize<'de, R>>⟧.reads s.human R.lends j a2) _
              (newtype_row s (⟦<&'de str as Serialize>⟧.data_of a2.0 s.human) (λ j. ⟦<&'de str as Deserialize<'de, R>>⟧.reads s.human R.lends j a2.0)
              (str_row s a2.0.now _ (lent refl) fits.1)) (rows_none s)))
          | the_event.Put a1 a2 ↦ λ fits. struct_variant_row s names (codes "Put") 3 refl _
              (codes "key" ∷ (codes "size" ∷ [])) _ _ refl (λ m h. (a1, a2, refl, h))
              (fields_cons s (codes "key") _ _ _ (λ j. ⟦<&'de str as Deserialize<'de, R>>⟧.reads s.human R.lends j a1)
              (Absent ⟦<&'de str as Deserialize<'de, R>>⟧.absent a1) _ (str_row s a1.now _ (lent refl) fits.0)
              (fields_cons s (codes "size") _ _ _ (λ j. ⟦<u32 as Deserialize<'de, R>>⟧.reads s.human R.lends j a2)
              (Absent ⟦<u32 as Deserialize<'de, R>>⟧.absent a2) _ (unsigned_row_32 s a2 fits.1) (fields_none s)))
          | the_event.Held a1 ↦ λ fits.
              newtype_variant_row s names (codes "Held") 4 refl _ _ (λ j. T.reads s.human R.lends j a1) (λ m h. (a1, refl, h))
              (T.round (λ _. lent refl) s a1 fits)
        ] };

    ghost same = { λ v w. elim v [
      | the_event.Started ↦ (w ≡ the_event.Started)
      | the_event.Said a1 ↦ (b1 : _) × (w ≡ the_event.Said b1)
          × ⟦<&'de str as RoundTrip<'de, R>>⟧.same a1 b1
      | the_event.Moved a1 a2 ↦ (b1 : _) × (b2 : _) × (w ≡ the_event.Moved b1 b2)
          × ⟦<i16 as RoundTrip<'de, R>>⟧.same a1 b1 × ⟦<Label<'de> as RoundTrip<'de, R>>⟧.same a2 b2
      | the_event.Put a1 a2 ↦ (b1 : _) × (b2 : _)
          × (w ≡ the_event.Put b1 b2) × ⟦<&'de str as RoundTrip<'de, R>>⟧.same a1 b1 × ⟦<u32 as RoundTrip<'de, R>>⟧.same a2 b2
      | the_event.Held a1 ↦ (b1 : _)
          × (w ≡ the_event.Held b1) × T.same a1 b1
    ] };

    ghost alike = { λ human. elim [
      | the_event.Started ↦ λ w h. variant_alike (λ x. ⟦<Event<'de, T> as Serialize>⟧.data_of x human) w the_event.Started h
          (λ i. Some (unit_variant (codes "Started")))
      | the_event.Said a1 ↦ λ w h. variant_alike (λ x. ⟦<Event<'de, T> as Serialize>⟧.data_of x human) w
          (the_event.Said h.0) h.1 (λ i. newtype_variant_of (codes "Said") (text_alike a1.now h.0.now h.2 i))
      | the_event.Moved a1 a2 ↦ λ w h. variant_alike
          (λ x. ⟦<Event<'de, T> as Serialize>⟧.data_of x human) w (the_event.Moved h.0 h.1) h.2
          (λ i. tuple_variant_of (codes "Moved") ((⟦<i16 as Serialize>⟧.data_of (h.3 i) human) ∷ ((wrapped_of (text_alike a2.0.now h.1.0.now h.4 i)) ∷ [])))
      | the_event.Put a1 a2 ↦ λ w h. variant_alike (λ x. ⟦<Event<'de, T> as Serialize>⟧.data_of x human) w (the_event.Put h.0 h.1) h.2
          (λ i. struct_variant_of (codes "Put") ((codes "key", (text_alike a1.now h.0.now h.3 i))
          ∷ ((codes "size", (⟦<u32 as Serialize>⟧.data_of (h.4 i) human)) ∷ [])))
      | the_event.Held a1 ↦ λ w h. variant_alike
          (λ x. ⟦<Event<'de, T> as Serialize>⟧.data_of x human) w (the_event.Held h.0) h.1
          (λ i. newtype_variant_of (codes "Held") (T.alike human a1 h.0 h.2 i))
    ] };

    ghost only = { λ s. let names = codes "Started" ∷ (codes "Said" ∷ (codes "Moved" ∷ (codes "Put" ∷ (codes "Held" ∷ []))))
        in elim [
          | the_event.Started ↦ λ fits. lowers_then s (Some (unit_variant (codes "Started"))) (OfVariant names (AtPlace 0 AnyContent)) (λ m. (w : _)
              → (⟦<Event<'de, T> as Deserialize<'de, R>>⟧.reads s.human R.lends) m w
              → (w ≡ the_event.Started)) (bare_row s names (codes "Started") 0 refl (AtPlace 0 AnyContent) (refl, tt))
              (λ m q w r. variant_both names 0 AnyContent _ _ m q r (λ c a b. b.0))
          | the_event.Said a1 ↦ λ fits. lowers_then s _ _ (λ m. (w : _)
              → (⟦<Event<'de, T> as Deserialize<'de, R>>⟧.reads s.human R.lends) m w
              → (b1 : _) × (w ≡ the_event.Said b1) × ⟦<&'de str as RoundTrip<'de, R>>⟧.same a1 b1)
              (newtype_variant_row s names (codes "Said") 1 refl
              (AtPlace 1 (Content (λ j. Only (⟦<&'de str as Deserialize<'de, R>>⟧.reads s.human R.lends) ⟦<&'de str as RoundTrip<'de, R>>⟧.same j a1))) _
              (λ j. Only (⟦<&'de str as Deserialize<'de, R>>⟧.reads s.human R.lends) ⟦<&'de str as RoundTrip<'de, R>>⟧.same j a1) (λ m h. (refl, h))
              (str_only s (λ w. w.now) a1.now R.lends)) (λ m q w r. variant_both names 1 _ _ _ m q r
              (λ c a b. (
                b.0,
                b.1,
                content_only (⟦<&'de str as Deserialize<'de, R>>⟧.reads s.human R.lends) ⟦<&'de str as RoundTrip<'de, R>>⟧.same a1 b.0 c a
                    b.2,
              )))
          | the_event.Moved a1 a2 ↦ λ fits. lowers_then s _ _ (λ m. (w : _) → (⟦<Event<'de, T> as Deserialize<'de, R>>⟧.reads s.human R.lends) m w
              → (b1 : _) × (b2 : _) × (w ≡ the_event.Moved b1 b2) × ⟦<i16 as RoundTrip<'de, R>>⟧.same a1 b1 × ⟦<Label<'de> as RoundTrip<'de, R>>⟧.same a2 b2)
              (tuple_variant_row s names (codes "Moved") 2 refl (AtPlace 2
              (Content (OfRow (AndThen (λ j. Only (⟦<i16 as Deserialize<'de, R>>⟧.reads s.human R.lends) ⟦<i16 as RoundTrip<'de, R>>⟧.same j a1)
              (AndThen (λ j. Only (⟦<Label<'de> as Deserialize<'de, R>>⟧.reads s.human R.lends) ⟦<Label<'de> as RoundTrip<'de, R>>⟧.same j a2) NoMore))))) _ _
              (λ m h. (refl, h)) (rows_cons s _ _ (λ j. Only (⟦<i16 as Deserialize<'de, R>>⟧.reads s.human R.lends) ⟦<i16 as RoundTrip<'de, R>>⟧.same j a1) _
              (signed_only s (negsuc 32767) (pos 32767) a1) (rows_cons s _ _
              (λ j. Only (⟦<Label<'de> as Deserialize<'de, R>>⟧.reads s.human R.lends) ⟦<Label<'de> as RoundTrip<'de, R>>⟧.same j a2) _
              (lowers_then s (wrapped_of (⟦<&'de str as Serialize>⟧.data_of a2.0 s.human))
              (λ j. Only (⟦<&'de str as Deserialize<'de, R>>⟧.reads s.human R.lends) ⟦<&'de str as RoundTrip<'de, R>>⟧.same j a2.0) (λ m. (w : _)
              → (⟦<Label<'de> as Deserialize<'de, R>>⟧.reads s.human R.lends) m w
              → ⟦<&'de str as RoundTrip<'de, R>>⟧.same a2.0 w.0)
              (newtype_row s (⟦<&'de str as Serialize>⟧.data_of a2.0 s.human)
              (λ j. Only (⟦<&'de str as Deserialize<'de, R>>⟧.reads s.human R.lends) ⟦<&'de str as RoundTrip<'de, R>>⟧.same j a2.0)
              (str_only s (λ w. w.now) a2.0.now R.lends)) (λ m q w r. q w.0 r)) (rows_none s))))
              (λ m q w r. variant_both names 2 _ _ _ m q r (λ c a b. content_row _ _ _ c a b.3
              (λ ks i j. let x = item_only (⟦<i16 as Deserialize<'de, R>>⟧.reads s.human R.lends) ⟦<i16 as RoundTrip<'de, R>>⟧.same a1 b.0 _ _ _
              (last_only (⟦<Label<'de> as Deserialize<'de, R>>⟧.reads s.human R.lends) ⟦<Label<'de> as RoundTrip<'de, R>>⟧.same a2 b.1) ks i j
              in (b.0, b.1, b.2, x.0, x.1))))
          | the_event.Put a1 a2 ↦ λ fits. lowers_then s _ _ (λ m. (w : _)
              → (⟦<Event<'de, T> as Deserialize<'de, R>>⟧.reads s.human R.lends) m w
              → (b1 : _) × (b2 : _) × (w ≡ the_event.Put b1 b2) × ⟦<&'de str as RoundTrip<'de, R>>⟧.same a1 b1 × ⟦<u32 as RoundTrip<'de, R>>⟧.same a2 b2)
              (struct_variant_row s names (codes "Put") 3 refl (AtPlace 3
              (Content (OfFields (codes "key" ∷ (codes "size" ∷ []))
              (Field (λ j. Only (⟦<&'de str as Deserialize<'de, R>>⟧.reads s.human R.lends) ⟦<&'de str as RoundTrip<'de, R>>⟧.same j a1) ⊥
              (Field (λ j. Only (⟦<u32 as Deserialize<'de, R>>⟧.reads s.human R.lends) ⟦<u32 as RoundTrip<'de, R>>⟧.same j a2) ⊥ NoField)))))
              (codes "key" ∷ (codes "size" ∷ [])) _ _ refl (λ m h. (refl, h))
              (fields_cons s (codes "key") _ _ _ (λ j. Only (⟦<&'de str as Deserialize<'de, R>>⟧.reads s.human R.lends) ⟦<&'de str as RoundTrip<'de, R>>⟧.same j
              a1) ⊥ _ (str_only s (λ w. w.now) a1.now R.lends) (fields_cons s (codes "size") _ _ _
              (λ j. Only (⟦<u32 as Deserialize<'de, R>>⟧.reads s.human R.lends) ⟦<u32 as RoundTrip<'de, R>>⟧.same j a2) ⊥ _ (unsigned_only s 4294967295 a2)
              (fields_none s)))) (λ m q w r. variant_both names 3 _ _ _ m q r
              (λ c a b. content_fields (codes "key" ∷ (codes "size" ∷ [])) _ _ _ c a b.3
              (λ ks i j. let x = field_only (⟦<&'de str as Deserialize<'de, R>>⟧.reads s.human R.lends) ⟦<&'de str as RoundTrip<'de, R>>⟧.same a1 b.0 _ _ _ _
              (last_field (⟦<u32 as Deserialize<'de, R>>⟧.reads s.human R.lends) ⟦<u32 as RoundTrip<'de, R>>⟧.same a2 b.1 _) ks i j
              in (b.0, b.1, b.2, x.0, x.1))))
          | the_event.Held a1 ↦ λ fits. lowers_then s _ _ (λ m. (w : _)
              → (⟦<Event<'de, T> as Deserialize<'de, R>>⟧.reads s.human R.lends) m w
              → (b1 : _) × (w ≡ the_event.Held b1) × T.same a1 b1)
              (newtype_variant_row s names (codes "Held") 4 refl (AtPlace 4 (Content (λ j. Only (T.reads s.human R.lends) T.same j a1))) _
              (λ j. Only (T.reads s.human R.lends) T.same j a1) (λ m h. (refl, h)) (T.only s a1 fits))
              (λ m q w r. variant_both names 4 _ _ _ m q r (λ c a b. (b.0, b.1, content_only (T.reads s.human R.lends) T.same a1 b.0 c a b.2)))
        ] };
}

impl<'de, T: Serialize> NeverNil for Event<'de, T> {
    ghost never_nil = { λ s. elim [
      | the_event.Started ↦ bare_other s (codes "Started")
      | the_event.Said a1 ↦ newtype_variant_other s (codes "Said") _
      | the_event.Moved a1 a2 ↦ tuple_variant_other s (codes "Moved") _
      | the_event.Put a1 a2 ↦ struct_variant_other s (codes "Put") _
      | the_event.Held a1 ↦
          newtype_variant_other s (codes "Held") _
    ] };
}

impl<'de, R: ReadSlice<'de>, T: EndsInside<'de, R>> EndsInside<'de, R> for Event<'de, T> {
    ghost ends_inside = { enum_inside _ _ (
      no_content_inside,
      (
        with_content_inside _ (str_inside),
        (
          with_content_inside _
              (tuple_inside (part_of ⟦<i16 as Deserialize<'de, R>>⟧.reads ⟦<i16 as Deserialize<'de, R>>⟧.refuses
              ∷ (part_of ⟦<Label<'de> as Deserialize<'de, R>>⟧.reads ⟦<Label<'de> as Deserialize<'de, R>>⟧.refuses ∷ [])) (number_inside, ((str_inside), tt))),
          (with_content_inside _ (fields_inside _ _ _ (str_inside, (number_inside, tt))), (with_content_inside _ (T.ends_inside), tt)),
        ),
      ),
    ) };
}
