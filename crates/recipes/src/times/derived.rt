//! How the types of times.rt are written and read. Written by tools/derive.py.
//!
//! Sum of Event: 78057d24.
ghost use Rattle.rmp_serde.specs.Decoding.FieldRefusing.{RefusesFields};
ghost use Rattle.rmp_serde.specs.Decoding.Fields.{OfFields, Field, Absent, NoField};
ghost use Rattle.rmp_serde.specs.Decoding.Refusing.{part_of};
ghost use Rattle.rmp_serde.specs.Encoding.Refusals.{OfParts};
ghost use Rattle.rmp_serde.specs.Encoding.Sizes.{one_of};
ghost use Rattle.rmp_serde.specs.Encoding.Trees.{structure_of};
ghost use Rattle.rmp_serde.specs.AlikeData.{text_alike};
ghost use Rattle.rmp_serde.specs.FieldEnds.{fields_inside};
ghost use Rattle.rmp_serde.specs.LeafEnds.{string_inside};
ghost use Rattle.rmp_serde.specs.LeafRounds.{string_row};
ghost use Rattle.rmp_serde.specs.OnlyFields.{field_only, fields_both, last_field};
ghost use Rattle.rmp_serde.specs.OnlyLeaves.{string_only};
ghost use Rattle.rmp_serde.specs.OnlyRows.{lowers_then};
ghost use Rattle.rmp_serde.specs.RoundTrip.{Only};
ghost use Rattle.rmp_serde.specs.StructRounds.{structure_all, structure_row, structure_other, fields_none, fields_cons};
ghost use Rattle.rmp_serde.specs.TimestampRounds.{time_alike, time_only, time_row, time_inside};
ghost use Rattle.std.proofs.Common.{refl};
ghost use Rattle.std.specs.Option.{is_none};
ghost use Rattle.std.specs.Prelude.{◌∷◌, [], None, codes, string_bytes};

use super::{Event, Timestamp};
use rmp_serde::decode::{Deserialize, Deserializer};
use rmp_serde::encode::{Serialize, Serializer};
use rmp_serde::wire::config::SerializerConfig;
use rmp_serde::wire::{ReadSlice, Sink};
use rmp_serde::{EndsInside, NeverNil, RoundTrip};

impl Serialize for Event {
    ghost data_of = { λ v human. structure_of ((codes "time", ⟦<Timestamp as Serialize>⟧.data_of v.time human)
        ∷ ((codes "what", ⟦<String as Serialize>⟧.data_of v.what human) ∷ [])) };

    ghost is_value = { λ v. ⟦<Timestamp as Serialize>⟧.is_value v.time × ⟦<String as Serialize>⟧.is_value v.what };

    ghost takes_memory = { λ s. one_of (⟦<Timestamp as Serialize>⟧.takes_memory s ∷ (⟦<String as Serialize>⟧.takes_memory s ∷ [])) };

    ghost refuses = { λ v. OfParts ⊥ (⟦<Timestamp as Serialize>⟧.refuses v.time ∷ (⟦<String as Serialize>⟧.refuses v.what ∷ [])) };

    fn serialize<W: Sink, C: SerializerConfig>(
        &self,
        se: &mut Serializer<W, C>,
    ) -> Result<(), rmp_serde::encode::Error> {
        let parts = rmp_serde::encode::Both {
            first: &self.time,
            second: &self.what,
        };
        se.serialize_fields("Event", &["time", "what"], &parts)
    }

    #[tactic(auto, using(rmp_serde::proofs::Attributes::structure_no_byte))]
    fn as_u8(&self, _human: bool) -> Option<u8> {
        None
    }
}

impl<'de, R: ReadSlice<'de>> Deserialize<'de, R> for Event {
    ghost reads = { λ human lends m v. OfFields (codes "time" ∷ (codes "what" ∷ []))
        (Field (λ j. ⟦<Timestamp as Deserialize<'de, R>>⟧.reads human lends j v.time) (Absent ⟦<Timestamp as Deserialize<'de, R>>⟧.absent v.time)
        (Field (λ j. ⟦<String as Deserialize<'de, R>>⟧.reads human lends j v.what) (Absent ⟦<String as Deserialize<'de, R>>⟧.absent v.what) NoField)) m };

    ghost absent = { None };

    ghost refuses = { RefusesFields (codes "time" ∷ (codes "what" ∷ []))
        (is_none ⟦<Timestamp as Deserialize<'de, R>>⟧.absent ∷ (is_none ⟦<String as Deserialize<'de, R>>⟧.absent ∷ []))
        (part_of ⟦<Timestamp as Deserialize<'de, R>>⟧.reads ⟦<Timestamp as Deserialize<'de, R>>⟧.refuses
        ∷ (part_of ⟦<String as Deserialize<'de, R>>⟧.reads ⟦<String as Deserialize<'de, R>>⟧.refuses ∷ [])) };

    #[inline(always)]
    fn deserialize<C: SerializerConfig>(
        de: &mut Deserializer<R, C>,
    ) -> Result<Event, rmp_serde::decode::Error> {
        let read: Result<(Timestamp, (String, ())), rmp_serde::decode::Error> =
            rmp_serde::decode::read_fields_2(de, &["time", "what"]);
        match read {
            Ok(parts) => {
                let (time, (what, ())) = parts;
                return Ok(Event { time, what });
            }
            Err(e) => return Err(e),
        }
    }

    fn missing() -> Option<Event> {
        None
    }
}

impl<'de, R: ReadSlice<'de>> RoundTrip<'de, R> for Event {
    ghost has_data = { λ human v. structure_all ((codes "time", ⟦<Timestamp as Serialize>⟧.data_of v.time human)
        ∷ ((codes "what", ⟦<String as Serialize>⟧.data_of v.what human) ∷ [])) (refl, (refl, tt)) };

    ghost round = { λ lent s v fits. structure_row s (codes "time" ∷ (codes "what" ∷ [])) _ _ refl
        (fields_cons s (codes "time") _ _ _ (λ j. ⟦<Timestamp as Deserialize<'de, R>>⟧.reads s.human R.lends j v.time)
        (Absent ⟦<Timestamp as Deserialize<'de, R>>⟧.absent v.time) _ (time_row s v.time.seconds v.time.nanoseconds fits.0.0 fits.0.1)
        (fields_cons s (codes "what") _ _ _ (λ j. ⟦<String as Deserialize<'de, R>>⟧.reads s.human R.lends j v.what)
        (Absent ⟦<String as Deserialize<'de, R>>⟧.absent v.what) _ (string_row s (string_bytes v.what)) (fields_none s))) };

    ghost same = { λ v w. ⟦<Timestamp as RoundTrip<'de, R>>⟧.same v.time w.time × ⟦<String as RoundTrip<'de, R>>⟧.same v.what w.what };

    ghost alike = { λ human v w h i. structure_of ((codes "time", (time_alike v.time.seconds w.time.seconds v.time.nanoseconds w.time.nanoseconds h.0 i))
        ∷ ((codes "what", (text_alike (string_bytes v.what) (string_bytes w.what) h.1 i)) ∷ [])) };

    ghost only = { λ s v fits. lowers_then s _ _ (λ m. (w : _) → (⟦<Event as Deserialize<'de, R>>⟧.reads s.human R.lends) m w
        → ⟦<Timestamp as RoundTrip<'de, R>>⟧.same v.time w.time × ⟦<String as RoundTrip<'de, R>>⟧.same v.what w.what)
        (structure_row s (codes "time" ∷ (codes "what" ∷ [])) _ _ refl
        (fields_cons s (codes "time") _ _ _ (λ j. Only (⟦<Timestamp as Deserialize<'de, R>>⟧.reads s.human R.lends) ⟦<Timestamp as RoundTrip<'de, R>>⟧.same
        j v.time) ⊥ _ (time_only s v.time.seconds v.time.nanoseconds fits.0.0 fits.0.1)
        (fields_cons s (codes "what") _ _ _ (λ j. Only (⟦<String as Deserialize<'de, R>>⟧.reads s.human R.lends) ⟦<String as RoundTrip<'de, R>>⟧.same j
        v.what) ⊥ _ (string_only s (λ w. string_bytes w) (string_bytes v.what)) (fields_none s))))
        (λ m q w r. fields_both (codes "time" ∷ (codes "what" ∷ [])) _ _ _ m q r
        (field_only (⟦<Timestamp as Deserialize<'de, R>>⟧.reads s.human R.lends) ⟦<Timestamp as RoundTrip<'de, R>>⟧.same v.time w.time _ _ _ _
        (last_field (⟦<String as Deserialize<'de, R>>⟧.reads s.human R.lends) ⟦<String as RoundTrip<'de, R>>⟧.same v.what w.what _))) };
}

impl NeverNil for Event {
    ghost never_nil = { λ s v. structure_other s _ };
}

impl<'de, R: ReadSlice<'de>> EndsInside<'de, R> for Event {
    ghost ends_inside = { fields_inside _ _ _ (time_inside, (string_inside, tt)) };
}
