//! How the types of note.rt are written and read. Written by tools/derive.py.
//!
//! Sum of Note: 1395c1ba.
ghost use Rattle.rmp_decode.specs.FieldRefusing.{RefusesFields};
ghost use Rattle.rmp_decode.specs.Fields.{OfFields, Field, Absent, NoField};
ghost use Rattle.rmp_decode.specs.Refusing.{part_of};
ghost use Rattle.rmp_encode.specs.Refusals.{OfParts};
ghost use Rattle.rmp_encode.specs.Sizes.{one_of};
ghost use Rattle.rmp_encode.specs.Trees.{structure_of};
ghost use Rattle.rmp_serde.specs.AlikeData.{text_alike};
ghost use Rattle.rmp_serde.specs.FieldEnds.{fields_inside};
ghost use Rattle.rmp_serde.specs.LeafEnds.{string_inside};
ghost use Rattle.rmp_serde.specs.LeafRounds.{string_row};
ghost use Rattle.rmp_serde.specs.OnlyFields.{field_only, fields_both, last_field};
ghost use Rattle.rmp_serde.specs.OnlyLeaves.{string_only};
ghost use Rattle.rmp_serde.specs.OnlyRows.{lowers_then};
ghost use Rattle.rmp_serde.specs.RoundTrip.{Only};
ghost use Rattle.rmp_serde.specs.StructRounds.{structure_all, structure_row, structure_other, fields_none, fields_cons};
ghost use Rattle.std.proofs.Common.{refl};
ghost use Rattle.std.specs.Option.{is_none};
ghost use Rattle.std.specs.Prelude.{◌∷◌, [], None, codes, string_bytes};

use super::Note;
use rmp_decode::{Deserialize, Deserializer};
use rmp_encode::{Serialize, Serializer};
use rmp_serde::{EndsInside, NeverNil, RoundTrip};
use rmp_wire::config::SerializerConfig;
use rmp_wire::{ReadSlice, Sink};

impl Serialize for Note {
    ghost data_of = { λ v human. structure_of ((codes "title", ⟦<String as Serialize>⟧.data_of v.title human)
        ∷ ((codes "text", ⟦<String as Serialize>⟧.data_of v.text human) ∷ [])) };

    ghost is_value = { λ v. ⟦<String as Serialize>⟧.is_value v.title × ⟦<String as Serialize>⟧.is_value v.text };

    ghost takes_memory = { λ s. one_of (⟦<String as Serialize>⟧.takes_memory s ∷ (⟦<String as Serialize>⟧.takes_memory s ∷ [])) };

    ghost refuses = { λ v. OfParts ⊥ (⟦<String as Serialize>⟧.refuses v.title ∷ (⟦<String as Serialize>⟧.refuses v.text ∷ [])) };

    fn serialize<W: Sink, C: SerializerConfig>(
        &self,
        se: &mut Serializer<W, C>,
    ) -> Result<(), rmp_encode::Error> {
        let parts = rmp_encode::Both {
            first: &self.title,
            second: &self.text,
        };
        se.serialize_fields("Note", &["title", "text"], &parts)
    }

    #[tactic(auto, using(rmp_encode::proofs::Fields::structure_no_byte))]
    fn as_u8(&self, _human: bool) -> Option<u8> {
        None
    }
}

impl<'de, R: ReadSlice<'de>> Deserialize<'de, R> for Note {
    ghost reads = { λ human lends m v. OfFields (codes "title" ∷ (codes "text" ∷ []))
        (Field (λ j. ⟦<String as Deserialize<'de, R>>⟧.reads human lends j v.title) (Absent ⟦<String as Deserialize<'de, R>>⟧.absent v.title)
        (Field (λ j. ⟦<String as Deserialize<'de, R>>⟧.reads human lends j v.text) (Absent ⟦<String as Deserialize<'de, R>>⟧.absent v.text) NoField)) m };

    ghost absent = { None };

    ghost refuses = { RefusesFields (codes "title" ∷ (codes "text" ∷ []))
        (is_none ⟦<String as Deserialize<'de, R>>⟧.absent ∷ (is_none ⟦<String as Deserialize<'de, R>>⟧.absent ∷ []))
        (part_of ⟦<String as Deserialize<'de, R>>⟧.reads ⟦<String as Deserialize<'de, R>>⟧.refuses
        ∷ (part_of ⟦<String as Deserialize<'de, R>>⟧.reads ⟦<String as Deserialize<'de, R>>⟧.refuses ∷ [])) };

    #[inline(always)]
    fn deserialize<C: SerializerConfig>(
        de: &mut Deserializer<R, C>,
    ) -> Result<Note, rmp_decode::Error> {
        let read: Result<(String, (String, ())), rmp_decode::Error> = rmp_decode::read_fields_2(
            de,
            &["title", "text"],
        );
        match read {
            Ok(parts) => {
                let (title, (text, ())) = parts;
                return Ok(Note { title, text });
            }
            Err(e) => return Err(e),
        }
    }

    fn missing() -> Option<Note> {
        None
    }
}

impl<'de, R: ReadSlice<'de>> RoundTrip<'de, R> for Note {
    ghost has_data = { λ human v. structure_all ((codes "title", ⟦<String as Serialize>⟧.data_of v.title human)
        ∷ ((codes "text", ⟦<String as Serialize>⟧.data_of v.text human) ∷ [])) (refl, (refl, tt)) };

    ghost round = { λ lent s v fits. structure_row s (codes "title" ∷ (codes "text" ∷ [])) _ _ refl
        (fields_cons s (codes "title") _ _ _ (λ j. ⟦<String as Deserialize<'de, R>>⟧.reads s.human R.lends j v.title)
        (Absent ⟦<String as Deserialize<'de, R>>⟧.absent v.title) _ (string_row s (string_bytes v.title))
        (fields_cons s (codes "text") _ _ _ (λ j. ⟦<String as Deserialize<'de, R>>⟧.reads s.human R.lends j v.text)
        (Absent ⟦<String as Deserialize<'de, R>>⟧.absent v.text) _ (string_row s (string_bytes v.text)) (fields_none s))) };

    ghost same = { λ v w. ⟦<String as RoundTrip<'de, R>>⟧.same v.title w.title × ⟦<String as RoundTrip<'de, R>>⟧.same v.text w.text };

    ghost alike = { λ human v w h i. structure_of ((codes "title", (text_alike (string_bytes v.title) (string_bytes w.title) h.0 i))
        ∷ ((codes "text", (text_alike (string_bytes v.text) (string_bytes w.text) h.1 i)) ∷ [])) };

    ghost only = { λ s v fits. lowers_then s _ _ (λ m. (w : _) → (⟦<Note as Deserialize<'de, R>>⟧.reads s.human R.lends) m w
        → ⟦<String as RoundTrip<'de, R>>⟧.same v.title w.title × ⟦<String as RoundTrip<'de, R>>⟧.same v.text w.text)
        (structure_row s (codes "title" ∷ (codes "text" ∷ [])) _ _ refl
        (fields_cons s (codes "title") _ _ _ (λ j. Only (⟦<String as Deserialize<'de, R>>⟧.reads s.human R.lends) ⟦<String as RoundTrip<'de, R>>⟧.same j
        v.title) ⊥ _ (string_only s (λ w. string_bytes w) (string_bytes v.title))
        (fields_cons s (codes "text") _ _ _ (λ j. Only (⟦<String as Deserialize<'de, R>>⟧.reads s.human R.lends) ⟦<String as RoundTrip<'de, R>>⟧.same j
        v.text) ⊥ _ (string_only s (λ w. string_bytes w) (string_bytes v.text)) (fields_none s))))
        (λ m q w r. fields_both (codes "title" ∷ (codes "text" ∷ [])) _ _ _ m q r
        (field_only (⟦<String as Deserialize<'de, R>>⟧.reads s.human R.lends) ⟦<String as RoundTrip<'de, R>>⟧.same v.title w.title _ _ _ _
        (last_field (⟦<String as Deserialize<'de, R>>⟧.reads s.human R.lends) ⟦<String as RoundTrip<'de, R>>⟧.same v.text w.text _))) };
}

impl NeverNil for Note {
    ghost never_nil = { λ s v. structure_other s _ };
}

impl<'de, R: ReadSlice<'de>> EndsInside<'de, R> for Note {
    ghost ends_inside = { fields_inside _ _ _ (string_inside, (string_inside, tt)) };
}
