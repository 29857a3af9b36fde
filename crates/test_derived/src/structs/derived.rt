//! How the types of structs.rt are written and read. Written by tools/derive.py.
//!
//! Sum of Dog: e1900cf3.
//! Sum of Opt: 7362e641.
//! Sum of Point: 10e2677c.
//! Sum of Newtype: b785b6a3.
//! Sum of Unit: ca49ded8.
//! Sum of Counted: 33e5bef1.
ghost use Rattle.rmp_decode.specs.Exact.{RefusesExactly};
ghost use Rattle.rmp_decode.specs.FieldRefusing.{RefusesFields};
ghost use Rattle.rmp_decode.specs.Fields.{OfFields, Field, Absent, NoField};
ghost use Rattle.rmp_decode.specs.Refusing.{RefusesTuple, part_of};
ghost use Rattle.rmp_decode.specs.Rows.{AndThen, NoMore};
ghost use Rattle.rmp_decode.specs.Seq.{OfRow};
ghost use Rattle.rmp_decode.specs.Units.{IsNothing, not_nothing};
ghost use Rattle.rmp_encode.specs.Data.{unit_struct};
ghost use Rattle.rmp_encode.specs.Refusals.{OfParts, OfSink};
ghost use Rattle.rmp_encode.specs.Sizes.{one_of};
ghost use Rattle.rmp_encode.specs.Trees.{wrapped_of, sequence_of, structure_of};
ghost use Rattle.rmp_ends.specs.EnumEnds.{nothing_inside};
ghost use Rattle.rmp_ends.specs.FieldEnds.{fields_inside};
ghost use Rattle.rmp_ends.specs.LeafEnds.{number_inside, string_inside};
ghost use Rattle.rmp_ends.specs.RowEnds.{option_inside, tuple_inside};
ghost use Rattle.rmp_round_trip.specs.AlikeData.{option_alike, text_alike};
ghost use Rattle.rmp_round_trip.specs.LeafRounds.{byte_row, unsigned_row_16, unsigned_row_32, unsigned_row_64, string_row, byte_other, pos_other};
ghost use Rattle.rmp_round_trip.specs.OnlyFields.{field_only, fields_both, last_field};
ghost use Rattle.rmp_round_trip.specs.OnlyLeaves.{byte_only, unsigned_only, string_only};
ghost use Rattle.rmp_round_trip.specs.OnlyRows.{item_only, last_only, lowers_then, option_only, row_both};
ghost use Rattle.rmp_round_trip.specs.RoundTrip.{Only};
ghost use Rattle.rmp_round_trip.specs.Rounds.{option_some, option_row, sequence_row, sequence_other, rows_none, rows_cons};
ghost use Rattle.rmp_round_trip.specs.StructRounds.{sequence_all, structure_all, structure_row, structure_other, fields_none, fields_cons};
ghost use Rattle.rmp_round_trip.specs.VariantRounds.{newtype_some, nothing_row, newtype_row, nothing_other, newtype_other};
ghost use Rattle.std.proofs.Common.{refl};
ghost use Rattle.std.specs.Option.{is_none};
ghost use Rattle.std.specs.Prelude.{◌∷◌, [], None, Some, codes, false, ⊤, string_bytes};

use super::{Counted, Dog, Newtype, Opt, Point, Unit};
use rmp_decode::{Deserialize, Deserializer, ReadFields};
use rmp_encode::{Serialize, Serializer};
use rmp_ends::EndsInside;
use rmp_round_trip::{NeverNil, RoundTrip};
use rmp_wire::config::SerializerConfig;
use rmp_wire::{ReadSlice, Sink};

impl Serialize for Dog {
    ghost data_of = { λ v human. structure_of ((codes "name", ⟦<String as Serialize>⟧.data_of v.name human)
        ∷ ((codes "age", ⟦<u16 as Serialize>⟧.data_of v.age human) ∷ [])) };

    ghost is_value = { λ v. ⟦<String as Serialize>⟧.is_value v.name × ⟦<u16 as Serialize>⟧.is_value v.age };

    ghost takes_memory = { λ s. one_of (⟦<String as Serialize>⟧.takes_memory s ∷ (⟦<u16 as Serialize>⟧.takes_memory s ∷ [])) };

    ghost refuses = { λ v. OfParts ⊥ (⟦<String as Serialize>⟧.refuses v.name ∷ (⟦<u16 as Serialize>⟧.refuses v.age ∷ [])) };

    fn serialize<W: Sink, C: SerializerConfig>(
        &self,
        se: &mut Serializer<W, C>,
    ) -> Result<(), rmp_encode::Error> {
        let parts = rmp_encode::Both {
            first: &self.name,
            second: &self.age,
        };
        se.serialize_fields("Dog", &["name", "age"], &parts)
    }

    #[tactic(auto, using(rmp_encode::proofs::Fields::structure_no_byte))]
    fn as_u8(&self, _human: bool) -> Option<u8> {
        None
    }
}

impl<'de, R: ReadSlice<'de>> Deserialize<'de, R> for Dog {
    ghost reads = { λ human lends m v. OfFields (codes "name" ∷ (codes "age" ∷ []))
        (Field (λ j. ⟦<String as Deserialize<'de, R>>⟧.reads human lends j v.name) (Absent ⟦<String as Deserialize<'de, R>>⟧.absent v.name)
        (Field (λ j. ⟦<u16 as Deserialize<'de, R>>⟧.reads human lends j v.age) (Absent ⟦<u16 as Deserialize<'de, R>>⟧.absent v.age) NoField)) m };

    ghost absent = { None };

    ghost refuses = { RefusesFields (codes "name" ∷ (codes "age" ∷ []))
        (is_none ⟦<String as Deserialize<'de, R>>⟧.absent ∷ (is_none ⟦<u16 as Deserialize<'de, R>>⟧.absent ∷ []))
        (part_of ⟦<String as Deserialize<'de, R>>⟧.reads ⟦<String as Deserialize<'de, R>>⟧.refuses
        ∷ (part_of ⟦<u16 as Deserialize<'de, R>>⟧.reads ⟦<u16 as Deserialize<'de, R>>⟧.refuses ∷ [])) };

    #[inline(always)]
    fn deserialize<C: SerializerConfig>(
        de: &mut Deserializer<R, C>,
    ) -> Result<Dog, rmp_decode::Error> {
        let read: Result<(String, (u16, ())), rmp_decode::Error> = rmp_decode::read_fields_2(
            de,
            &["name", "age"],
        );
        match read {
            Ok(parts) => {
                let (name, (age, ())) = parts;
                return Ok(Dog { name, age });
            }
            Err(e) => return Err(e),
        }
    }

    fn missing() -> Option<Dog> {
        None
    }
}

impl<'de, R: ReadSlice<'de>> RoundTrip<'de, R> for Dog {
    ghost has_data = { λ human v. structure_all ((codes "name", ⟦<String as Serialize>⟧.data_of v.name human)
        ∷ ((codes "age", ⟦<u16 as Serialize>⟧.data_of v.age human) ∷ [])) (refl, (refl, tt)) };

    ghost round = { λ lent s v fits. structure_row s (codes "name" ∷ (codes "age" ∷ [])) _ _ refl
        (fields_cons s (codes "name") _ _ _ (λ j. ⟦<String as Deserialize<'de, R>>⟧.reads s.human R.lends j v.name)
        (Absent ⟦<String as Deserialize<'de, R>>⟧.absent v.name) _ (string_row s (string_bytes v.name))
        (fields_cons s (codes "age") _ _ _ (λ j. ⟦<u16 as Deserialize<'de, R>>⟧.reads s.human R.lends j v.age)
        (Absent ⟦<u16 as Deserialize<'de, R>>⟧.absent v.age) _ (unsigned_row_16 s v.age fits.1) (fields_none s))) };

    ghost same = { λ v w. ⟦<String as RoundTrip<'de, R>>⟧.same v.name w.name × ⟦<u16 as RoundTrip<'de, R>>⟧.same v.age w.age };

    ghost alike = { λ human v w h i. structure_of ((codes "name", (text_alike (string_bytes v.name) (string_bytes w.name) h.0 i))
        ∷ ((codes "age", (⟦<u16 as Serialize>⟧.data_of (h.1 i) human)) ∷ [])) };

    ghost only = { λ s v fits. lowers_then s _ _ (λ m. (w : _) → (⟦<Dog as Deserialize<'de, R>>⟧.reads s.human R.lends) m w
        → ⟦<String as RoundTrip<'de, R>>⟧.same v.name w.name × ⟦<u16 as RoundTrip<'de, R>>⟧.same v.age w.age)
        (structure_row s (codes "name" ∷ (codes "age" ∷ [])) _ _ refl
        (fields_cons s (codes "name") _ _ _ (λ j. Only (⟦<String as Deserialize<'de, R>>⟧.reads s.human R.lends) ⟦<String as RoundTrip<'de, R>>⟧.same j
        v.name) ⊥ _ (string_only s (λ w. string_bytes w) (string_bytes v.name))
        (fields_cons s (codes "age") _ _ _ (λ j. Only (⟦<u16 as Deserialize<'de, R>>⟧.reads s.human R.lends) ⟦<u16 as RoundTrip<'de, R>>⟧.same j v.age) ⊥ _
        (unsigned_only s 65535 v.age) (fields_none s)))) (λ m q w r. fields_both (codes "name" ∷ (codes "age" ∷ [])) _ _ _ m q r
        (field_only (⟦<String as Deserialize<'de, R>>⟧.reads s.human R.lends) ⟦<String as RoundTrip<'de, R>>⟧.same v.name w.name _ _ _ _
        (last_field (⟦<u16 as Deserialize<'de, R>>⟧.reads s.human R.lends) ⟦<u16 as RoundTrip<'de, R>>⟧.same v.age w.age _))) };
}

impl NeverNil for Dog {
    ghost never_nil = { λ s v. structure_other s _ };
}

impl<'de, R: ReadSlice<'de>> EndsInside<'de, R> for Dog {
    ghost ends_inside = { fields_inside _ _ _ (string_inside, (number_inside, tt)) };
}

impl Serialize for Opt {
    ghost data_of = { λ v human. structure_of ((codes "v", ⟦<Option<u8> as Serialize>⟧.data_of v.v human) ∷ []) };

    ghost is_value = { λ v. ⟦<Option<u8> as Serialize>⟧.is_value v.v };

    ghost takes_memory = { λ s. one_of (⟦<Option<u8> as Serialize>⟧.takes_memory s ∷ []) };

    ghost refuses = { λ v. OfParts ⊥ (⟦<Option<u8> as Serialize>⟧.refuses v.v ∷ []) };

    fn serialize<W: Sink, C: SerializerConfig>(
        &self,
        se: &mut Serializer<W, C>,
    ) -> Result<(), rmp_encode::Error> {
        let parts = rmp_encode::One { first: &self.v };
        se.serialize_fields("Opt", &["v"], &parts)
    }

    #[tactic(auto, using(rmp_encode::proofs::Fields::structure_no_byte))]
    fn as_u8(&self, _human: bool) -> Option<u8> {
        None
    }
}

impl<'de, R: ReadSlice<'de>> Deserialize<'de, R> for Opt {
    ghost reads = { λ human lends m v. OfFields (codes "v" ∷ [])
        (Field (λ j. ⟦<Option<u8> as Deserialize<'de, R>>⟧.reads human lends j v.v) (Absent ⟦<Option<u8> as Deserialize<'de, R>>⟧.absent v.v) NoField) m };

    ghost absent = { None };

    ghost refuses = { RefusesFields (codes "v" ∷ []) ⟦<(Option<u8>, ()) as ReadFields<'de, R>>⟧.needed
        ⟦<(Option<u8>, ()) as ReadFields<'de, R>>⟧.parts };

    #[inline(always)]
    fn deserialize<C: SerializerConfig>(
        de: &mut Deserializer<R, C>,
    ) -> Result<Opt, rmp_decode::Error> {
        let read: Result<(Option<u8>, ()), rmp_decode::Error> = de.deserialize_fields(&["v"]);
        match read {
            Ok(parts) => {
                let (v, ()) = parts;
                return Ok(Opt { v });
            }
            Err(e) => return Err(e),
        }
    }

    fn missing() -> Option<Opt> {
        None
    }
}

impl<'de, R: ReadSlice<'de>> RoundTrip<'de, R> for Opt {
    ghost has_data = { λ human v. structure_all ((codes "v", ⟦<Option<u8> as Serialize>⟧.data_of v.v human) ∷ [])
        ((option_some (λ x. ⟦<u8 as Serialize>⟧.data_of x human) (λ x1. refl) v.v), tt) };

    ghost round = { λ lent s v fits. structure_row s (codes "v" ∷ []) _ _ refl
        (fields_cons s (codes "v") _ _ _ (λ j. ⟦<Option<u8> as Deserialize<'de, R>>⟧.reads s.human R.lends j v.v)
        (Absent ⟦<Option<u8> as Deserialize<'de, R>>⟧.absent v.v) _
        (option_row s (λ x. ⟦<u8 as Serialize>⟧.data_of x s.human) ⟦<u8 as Serialize>⟧.is_value (⟦<u8 as Deserialize<'de, R>>⟧.reads s.human R.lends)
        (λ x3. byte_other s x3) (λ x2 h2. (byte_row s x2 h2)) v.v fits) (fields_none s)) };

    ghost same = { λ v w. ⟦<Option<u8> as RoundTrip<'de, R>>⟧.same v.v w.v };

    ghost alike = { λ human v w h i. structure_of ((
      codes "v",
      (option_alike ⟦<u8 as RoundTrip<'de, R>>⟧.same (λ x. ⟦<u8 as Serialize>⟧.data_of x human)
          (λ x3 yx3 h3 i. (⟦<u8 as Serialize>⟧.data_of (h3 i) human)) v.v w.v h i),
    ) ∷ []) };

    ghost only = { λ s v fits. lowers_then s _ _ (λ m. (w : _) → (⟦<Opt as Deserialize<'de, R>>⟧.reads s.human R.lends) m w
        → ⟦<Option<u8> as RoundTrip<'de, R>>⟧.same v.v w.v)
        (structure_row s (codes "v" ∷ []) _ _ refl (fields_cons s (codes "v") _ _ _
        (λ j. Only (⟦<Option<u8> as Deserialize<'de, R>>⟧.reads s.human R.lends) ⟦<Option<u8> as RoundTrip<'de, R>>⟧.same j v.v) ⊥ _
        (option_only s _ (⟦<u8 as Deserialize<'de, R>>⟧.reads s.human R.lends) ⟦<u8 as RoundTrip<'de, R>>⟧.same v.v
        (option_row s (λ x. ⟦<u8 as Serialize>⟧.data_of x s.human) ⟦<u8 as Serialize>⟧.is_value
        (Only (⟦<u8 as Deserialize<'de, R>>⟧.reads s.human R.lends) ⟦<u8 as RoundTrip<'de, R>>⟧.same) (λ x2. byte_other s x2) (λ x1 h1. (byte_only s x1))
        v.v fits)) (fields_none s))) (λ m q w r. fields_both (codes "v" ∷ []) _ _ _ m q r
        (last_field (⟦<Option<u8> as Deserialize<'de, R>>⟧.reads s.human R.lends) ⟦<Option<u8> as RoundTrip<'de, R>>⟧.same v.v w.v _)) };
}

impl NeverNil for Opt {
    ghost never_nil = { λ s v. structure_other s _ };
}

impl<'de, R: ReadSlice<'de>> EndsInside<'de, R> for Opt {
    ghost ends_inside = { fields_inside _ _ _ ((option_inside ⟦<u8 as Deserialize<'de, R>>⟧.refuses number_inside), tt) };
}

impl Serialize for Point {
    ghost data_of = { λ v human. sequence_of (⟦<u32 as Serialize>⟧.data_of v.0 human ∷ (⟦<String as Serialize>⟧.data_of v.1 human ∷ [])) };

    ghost is_value = { λ v. ⟦<u32 as Serialize>⟧.is_value v.0 × ⟦<String as Serialize>⟧.is_value v.1 };

    ghost takes_memory = { λ s. one_of (⟦<u32 as Serialize>⟧.takes_memory s ∷ (⟦<String as Serialize>⟧.takes_memory s ∷ [])) };

    ghost refuses = { λ v. OfParts ⊥ (⟦<u32 as Serialize>⟧.refuses v.0 ∷ (⟦<String as Serialize>⟧.refuses v.1 ∷ [])) };

    fn serialize<W: Sink, C: SerializerConfig>(
        &self,
        se: &mut Serializer<W, C>,
    ) -> Result<(), rmp_encode::Error> {
        let parts = rmp_encode::Both {
            first: &self.0,
            second: &self.1,
        };
        se.serialize_elements("Point", &parts)
    }

    #[tactic(auto, using(rmp_encode::proofs::Lists::sequence_no_byte))]
    fn as_u8(&self, _human: bool) -> Option<u8> {
        None
    }
}

impl<'de, R: ReadSlice<'de>> Deserialize<'de, R> for Point {
    ghost reads = { λ human lends m v. OfRow (AndThen (λ j. ⟦<u32 as Deserialize<'de, R>>⟧.reads human lends j v.0)
        (AndThen (λ j. ⟦<String as Deserialize<'de, R>>⟧.reads human lends j v.1) NoMore)) m };

    ghost absent = { None };

    ghost refuses = { RefusesTuple (part_of ⟦<u32 as Deserialize<'de, R>>⟧.reads ⟦<u32 as Deserialize<'de, R>>⟧.refuses
        ∷ (part_of ⟦<String as Deserialize<'de, R>>⟧.reads ⟦<String as Deserialize<'de, R>>⟧.refuses ∷ [])) };

    #[inline(always)]
    fn deserialize<C: SerializerConfig>(
        de: &mut Deserializer<R, C>,
    ) -> Result<Point, rmp_decode::Error> {
        let read: Result<(u32, String), rmp_decode::Error> = Deserialize::deserialize(de);
        match read {
            Ok(parts) => {
                let (first, second) = parts;
                return Ok(Point(first, second));
            }
            Err(e) => return Err(e),
        }
    }

    fn missing() -> Option<Point> {
        None
    }
}

impl<'de, R: ReadSlice<'de>> RoundTrip<'de, R> for Point {
    ghost has_data = { λ human v. sequence_all (⟦<u32 as Serialize>⟧.data_of v.0 human ∷ (⟦<String as Serialize>⟧.data_of v.1 human ∷ [])) (refl, (refl, tt)) };

    ghost round = { λ lent s v fits. sequence_row s _ _
        (rows_cons s _ _ (λ j. ⟦<u32 as Deserialize<'de, R>>⟧.reads s.human R.lends j v.0) _ (unsigned_row_32 s v.0 fits.0)
        (rows_cons s _ _ (λ j. ⟦<String as Deserialize<'de, R>>⟧.reads s.human R.lends j v.1) _ (string_row s (string_bytes v.1)) (rows_none s))) };

    ghost same = { λ v w. ⟦<u32 as RoundTrip<'de, R>>⟧.same v.0 w.0 × ⟦<String as RoundTrip<'de, R>>⟧.same v.1 w.1 };

    ghost alike = { λ human v w h i. sequence_of ((⟦<u32 as Serialize>⟧.data_of (h.0 i) human)
        ∷ ((text_alike (string_bytes v.1) (string_bytes w.1) h.1 i) ∷ [])) };

    ghost only = { λ s v fits. lowers_then s _ _ (λ m. (w : _) → (⟦<Point as Deserialize<'de, R>>⟧.reads s.human R.lends) m w
        → ⟦<u32 as RoundTrip<'de, R>>⟧.same v.0 w.0 × ⟦<String as RoundTrip<'de, R>>⟧.same v.1 w.1)
        (sequence_row s _ _ (rows_cons s _ _ (λ j. Only (⟦<u32 as Deserialize<'de, R>>⟧.reads s.human R.lends) ⟦<u32 as RoundTrip<'de, R>>⟧.same j v.0) _
        (unsigned_only s 4294967295 v.0) (rows_cons s _ _ (λ j. Only (⟦<String as Deserialize<'de, R>>⟧.reads s.human R.lends)
        ⟦<String as RoundTrip<'de, R>>⟧.same j v.1) _ (string_only s (λ w. string_bytes w) (string_bytes v.1)) (rows_none s))))
        (λ m q w r. row_both _ _ _ m q r (item_only (⟦<u32 as Deserialize<'de, R>>⟧.reads s.human R.lends) ⟦<u32 as RoundTrip<'de, R>>⟧.same v.0 w.0 _ _ _
        (last_only (⟦<String as Deserialize<'de, R>>⟧.reads s.human R.lends) ⟦<String as RoundTrip<'de, R>>⟧.same v.1 w.1))) };
}

impl NeverNil for Point {
    ghost never_nil = { λ s v. sequence_other s _ };
}

impl<'de, R: ReadSlice<'de>> EndsInside<'de, R> for Point {
    ghost ends_inside = { tuple_inside (part_of ⟦<u32 as Deserialize<'de, R>>⟧.reads ⟦<u32 as Deserialize<'de, R>>⟧.refuses
        ∷ (part_of ⟦<String as Deserialize<'de, R>>⟧.reads ⟦<String as Deserialize<'de, R>>⟧.refuses ∷ [])) (number_inside, (string_inside, tt)) };
}

impl Serialize for Newtype {
    ghost data_of = { λ v human. wrapped_of (⟦<u64 as Serialize>⟧.data_of v.0 human) };

    ghost is_value = { λ v. ⟦<u64 as Serialize>⟧.is_value v.0 };

    ghost takes_memory = { λ s. ⟦<u64 as Serialize>⟧.takes_memory s };

    ghost refuses = { λ v. ⟦<u64 as Serialize>⟧.refuses v.0 };

    fn serialize<W: Sink, C: SerializerConfig>(
        &self,
        se: &mut Serializer<W, C>,
    ) -> Result<(), rmp_encode::Error> {
        se.serialize_newtype_struct("Newtype", &self.0)
    }

    #[tactic(auto, using(rmp_encode::proofs::Wrapped::wrapped_no_byte))]
    fn as_u8(&self, _human: bool) -> Option<u8> {
        None
    }
}

impl<'de, R: ReadSlice<'de>> Deserialize<'de, R> for Newtype {
    ghost reads = { λ human lends m v. ⟦<u64 as Deserialize<'de, R>>⟧.reads human lends m v.0 };

    ghost absent = { None };

    ghost refuses = { ⟦<u64 as Deserialize<'de, R>>⟧.refuses };

    #[inline(always)]
    fn deserialize<C: SerializerConfig>(
        de: &mut Deserializer<R, C>,
    ) -> Result<Newtype, rmp_decode::Error> {
        match de.deserialize_newtype_struct("Newtype") {
            Ok(first) => return Ok(Newtype(first)),
            Err(e) => return Err(e),
        }
    }

    fn missing() -> Option<Newtype> {
        None
    }
}

impl<'de, R: ReadSlice<'de>> RoundTrip<'de, R> for Newtype {
    ghost has_data = { λ human v. newtype_some (⟦<u64 as Serialize>⟧.data_of v.0 human) refl };

    ghost round = { λ lent s v fits. newtype_row s (⟦<u64 as Serialize>⟧.data_of v.0 s.human)
        (λ j. ⟦<u64 as Deserialize<'de, R>>⟧.reads s.human R.lends j v.0) (unsigned_row_64 s v.0 fits) };

    ghost same = { λ v w. ⟦<u64 as RoundTrip<'de, R>>⟧.same v.0 w.0 };

    ghost alike = { λ human v w h i. wrapped_of (⟦<u64 as Serialize>⟧.data_of (h i) human) };

    ghost only = { λ s v fits. lowers_then s (wrapped_of (⟦<u64 as Serialize>⟧.data_of v.0 s.human))
        (λ j. Only (⟦<u64 as Deserialize<'de, R>>⟧.reads s.human R.lends) ⟦<u64 as RoundTrip<'de, R>>⟧.same j v.0) (λ m. (w : _)
        → (⟦<Newtype as Deserialize<'de, R>>⟧.reads s.human R.lends) m w
        → ⟦<u64 as RoundTrip<'de, R>>⟧.same v.0 w.0) (newtype_row s (⟦<u64 as Serialize>⟧.data_of v.0 s.human)
        (λ j. Only (⟦<u64 as Deserialize<'de, R>>⟧.reads s.human R.lends) ⟦<u64 as RoundTrip<'de, R>>⟧.same j v.0)
        (unsigned_only s 18446744073709551615 v.0)) (λ m q w r. q w.0 r) };
}

impl NeverNil for Newtype {
    ghost never_nil = { λ s v. newtype_other s (⟦<u64 as Serialize>⟧.data_of v.0 s.human) (pos_other s v.0) };
}

impl<'de, R: ReadSlice<'de>> EndsInside<'de, R> for Newtype {
    ghost ends_inside = { number_inside };
}

impl Serialize for Unit {
    ghost data_of = { λ v human. Some unit_struct };

    ghost is_value = { λ v. ⊤ };

    ghost takes_memory = { λ s. false };

    ghost refuses = { λ v. OfSink };

    #[tactic(auto, unfolding(rmp_encode::specs::Data::lower))]
    fn serialize<W: Sink, C: SerializerConfig>(
        &self,
        se: &mut Serializer<W, C>,
    ) -> Result<(), rmp_encode::Error> {
        se.serialize_unit_struct("Unit")
    }

    fn as_u8(&self, _human: bool) -> Option<u8> {
        None
    }
}

impl<'de, R: ReadSlice<'de>> Deserialize<'de, R> for Unit {
    ghost reads = { λ human lends m v. IsNothing m };

    ghost absent = { None };

    ghost refuses = { λ s. RefusesExactly s.strict (not_nothing s.room) };

    #[inline(always)]
    fn deserialize<C: SerializerConfig>(
        de: &mut Deserializer<R, C>,
    ) -> Result<Unit, rmp_decode::Error> {
        match de.deserialize_unit_struct("Unit") {
            Ok(()) => return Ok(Unit),
            Err(e) => return Err(e),
        }
    }

    fn missing() -> Option<Unit> {
        None
    }
}

impl<'de, R: ReadSlice<'de>> RoundTrip<'de, R> for Unit {
    ghost has_data = { λ human v. refl };

    ghost round = { λ lent s v fits. nothing_row s };

    ghost same = { λ v w. ⊤ };

    ghost alike = { λ human v w h i. Some unit_struct };

    ghost only = { λ s v fits. lowers_then s (Some unit_struct) IsNothing (λ m. (w : _) → (⟦<Unit as Deserialize<'de, R>>⟧.reads s.human R.lends) m w
        → ⊤) (nothing_row s) (λ m q w r. tt) };
}

impl NeverNil for Unit {
    ghost never_nil = { λ s v. nothing_other s };
}

impl<'de, R: ReadSlice<'de>> EndsInside<'de, R> for Unit {
    ghost ends_inside = { nothing_inside };
}

impl<T: Serialize> Serialize for Counted<T> {
    ghost data_of = { λ v human. structure_of ((codes "value", T.data_of v.value human) ∷ ((codes "count", ⟦<u64 as Serialize>⟧.data_of v.count human) ∷ [])) };

    ghost is_value = { λ v. T.is_value v.value × ⟦<u64 as Serialize>⟧.is_value v.count };

    ghost takes_memory = { λ s. one_of (T.takes_memory s ∷ (⟦<u64 as Serialize>⟧.takes_memory s ∷ [])) };

    ghost refuses = { λ v. OfParts ⊥ (T.refuses v.value ∷ (⟦<u64 as Serialize>⟧.refuses v.count ∷ [])) };

    fn serialize<W: Sink, C: SerializerConfig>(
        &self,
        se: &mut Serializer<W, C>,
    ) -> Result<(), rmp_encode::Error> {
        let parts = rmp_encode::Both {
            first: &self.value,
            second: &self.count,
        };
        se.serialize_fields("Counted", &["value", "count"], &parts)
    }

    #[tactic(auto, using(rmp_encode::proofs::Fields::structure_no_byte))]
    fn as_u8(&self, _human: bool) -> Option<u8> {
        None
    }
}

impl<'de, R: ReadSlice<'de>, T: Deserialize<'de, R>> Deserialize<'de, R> for Counted<T> {
    ghost reads = { λ human lends m v. OfFields (codes "value" ∷ (codes "count" ∷ []))
        (Field (λ j. T.reads human lends j v.value) (Absent T.absent v.value)
        (Field (λ j. ⟦<u64 as Deserialize<'de, R>>⟧.reads human lends j v.count) (Absent ⟦<u64 as Deserialize<'de, R>>⟧.absent v.count) NoField)) m };

    ghost absent = { None };

    ghost refuses = { RefusesFields (codes "value" ∷ (codes "count" ∷ []))
        (is_none T.absent ∷ (is_none ⟦<u64 as Deserialize<'de, R>>⟧.absent ∷ []))
        (part_of T.reads T.refuses ∷ (part_of ⟦<u64 as Deserialize<'de, R>>⟧.reads ⟦<u64 as Deserialize<'de, R>>⟧.refuses ∷ [])) };

    #[inline(always)]
    fn deserialize<C: SerializerConfig>(
        de: &mut Deserializer<R, C>,
    ) -> Result<Counted<T>, rmp_decode::Error> {
        let read: Result<(T, (u64, ())), rmp_decode::Error> = rmp_decode::read_fields_2(
            de,
            &["value", "count"],
        );
        match read {
            Ok(parts) => {
                let (value, (count, ())) = parts;
                return Ok(Counted { value, count });
            }
            Err(e) => return Err(e),
        }
    }

    fn missing() -> Option<Counted<T>> {
        None
    }
}

impl<'de, R: ReadSlice<'de>, T: RoundTrip<'de, R>> RoundTrip<'de, R> for Counted<T> {
    ghost borrows = { T.borrows };

    ghost has_data = { λ human v. structure_all ((codes "value", T.data_of v.value human)
        ∷ ((codes "count", ⟦<u64 as Serialize>⟧.data_of v.count human) ∷ [])) ((T.has_data human v.value), (refl, tt)) };

    ghost round = { λ lent s v fits. structure_row s (codes "value" ∷ (codes "count" ∷ [])) _ _ refl
        (fields_cons s (codes "value") _ _ _ (λ j. T.reads s.human R.lends j v.value) (Absent T.absent v.value) _ (T.round lent s v.value fits.0)
        (fields_cons s (codes "count") _ _ _ (λ j. ⟦<u64 as Deserialize<'de, R>>⟧.reads s.human R.lends j v.count)
        (Absent ⟦<u64 as Deserialize<'de, R>>⟧.absent v.count) _ (unsigned_row_64 s v.count fits.1) (fields_none s))) };

    ghost same = { λ v w. T.same v.value w.value × ⟦<u64 as RoundTrip<'de, R>>⟧.same v.count w.count };

    ghost alike = { λ human v w h i. structure_of ((codes "value", (T.alike human v.value w.value h.0 i))
        ∷ ((codes "count", (⟦<u64 as Serialize>⟧.data_of (h.1 i) human)) ∷ [])) };

    ghost only = { λ s v fits. lowers_then s _ _ (λ m. (w : _) → (⟦<Counted<T> as Deserialize<'de, R>>⟧.reads s.human R.lends) m w
        → T.same v.value w.value × ⟦<u64 as RoundTrip<'de, R>>⟧.same v.count w.count)
        (structure_row s (codes "value" ∷ (codes "count" ∷ [])) _ _ refl
        (fields_cons s (codes "value") _ _ _ (λ j. Only (T.reads s.human R.lends) T.same j v.value) ⊥ _ (T.only s v.value fits.0)
        (fields_cons s (codes "count") _ _ _ (λ j. Only (⟦<u64 as Deserialize<'de, R>>⟧.reads s.human R.lends) ⟦<u64 as RoundTrip<'de, R>>⟧.same j v.count)
        ⊥ _ (unsigned_only s 18446744073709551615 v.count) (fields_none s))))
        (λ m q w r. fields_both (codes "value" ∷ (codes "count" ∷ [])) _ _ _ m q r
        (field_only (T.reads s.human R.lends) T.same v.value w.value _ _ _ _
        (last_field (⟦<u64 as Deserialize<'de, R>>⟧.reads s.human R.lends) ⟦<u64 as RoundTrip<'de, R>>⟧.same v.count w.count _))) };
}

impl<T: Serialize> NeverNil for Counted<T> {
    ghost never_nil = { λ s v. structure_other s _ };
}

impl<'de, R: ReadSlice<'de>, T: EndsInside<'de, R>> EndsInside<'de, R> for Counted<T> {
    ghost ends_inside = { fields_inside _ _ _ (T.ends_inside, (number_inside, tt)) };
}
