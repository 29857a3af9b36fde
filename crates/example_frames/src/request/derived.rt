//! How the types of request.rt are written and read. Written by tools/derive.py.
//!
//! Sum of Request: 4997ff20.
ghost use Rattle.example_frames.specs.declared.request.Request.TheVariants as the_request;
ghost use Rattle.rmp_decode.specs.EnumRefusing.{RefusesEnum, no_content, with_content};
ghost use Rattle.rmp_decode.specs.Refusing.{RefusesTuple, part_of};
ghost use Rattle.rmp_decode.specs.Rows.{AndThen, NoMore};
ghost use Rattle.rmp_decode.specs.Seq.{OfRow};
ghost use Rattle.rmp_decode.specs.Variants.{OfVariant, Case, NoCase, Bare, Content};
ghost use Rattle.rmp_encode.specs.Data.{unit_variant};
ghost use Rattle.rmp_encode.specs.Refusals.{OfParts, OfSink};
ghost use Rattle.rmp_encode.specs.Sizes.{one_of};
ghost use Rattle.rmp_encode.specs.Trees.{newtype_variant_of, tuple_variant_of};
ghost use Rattle.rmp_serde.specs.AlikeData.{variant_alike};
ghost use Rattle.rmp_serde.specs.EnumEnds.{enum_inside, no_content_inside, with_content_inside};
ghost use Rattle.rmp_serde.specs.LeafEnds.{number_inside};
ghost use Rattle.rmp_serde.specs.LeafRounds.{unsigned_row_64};
ghost use Rattle.rmp_serde.specs.OnlyFields.{AtPlace, AnyContent, content_only, content_row, variant_both};
ghost use Rattle.rmp_serde.specs.OnlyLeaves.{unsigned_only};
ghost use Rattle.rmp_serde.specs.OnlyRows.{item_only, last_only, lowers_then};
ghost use Rattle.rmp_serde.specs.RoundTrip.{Only};
ghost use Rattle.rmp_serde.specs.Rounds.{rows_none, rows_cons};
ghost use Rattle.rmp_serde.specs.RowEnds.{tuple_inside};
ghost use Rattle.rmp_serde.specs.StructRounds.{tuple_variant_all};
ghost use Rattle.rmp_serde.specs.ValueEnds.{value_inside};
ghost use Rattle.rmp_serde.specs.ValueLowers.{value_only, value_row};
ghost use Rattle.rmp_serde.specs.VariantRounds.{bare_other, newtype_variant_other, tuple_variant_other};
ghost use Rattle.rmp_serde.specs.VariantRounds.{newtype_variant_some, bare_row, newtype_variant_row, tuple_variant_row};
ghost use Rattle.std.proofs.Common.{refl};
ghost use Rattle.std.specs.Prelude.{◌≡◌, ◌∷◌, [], None, Some, codes, false, ⊤};

use super::{Request, Value};
use rmp_decode::{Deserialize, Deserializer};
use rmp_encode::{Serialize, Serializer};
use rmp_serde::{EndsInside, NeverNil, RoundTrip};
use rmp_wire::config::SerializerConfig;
use rmp_wire::{ReadSlice, Sink};

impl Serialize for Request {
    ghost data_of = { λ v human. elim v [
      | the_request.Ping ↦ Some (unit_variant (codes "Ping"))
      | the_request.Get a1 ↦ newtype_variant_of (codes "Get")
          (⟦<u64 as Serialize>⟧.data_of a1 human)
      | the_request.Put a1 a2 ↦ tuple_variant_of (codes "Put")
          (⟦<u64 as Serialize>⟧.data_of a1 human ∷ (⟦<Value as Serialize>⟧.data_of a2 human ∷ []))
    ] };

    ghost is_value = { λ v. elim v [
      | the_request.Ping ↦ ⊤
      | the_request.Get a1 ↦ ⟦<u64 as Serialize>⟧.is_value a1
      | the_request.Put a1 a2 ↦
          ⟦<u64 as Serialize>⟧.is_value a1 × ⟦<Value as Serialize>⟧.is_value a2
    ] };

    ghost takes_memory = { λ s. one_of (false ∷ (⟦<u64 as Serialize>⟧.takes_memory s
        ∷ (one_of (⟦<u64 as Serialize>⟧.takes_memory s ∷ (⟦<Value as Serialize>⟧.takes_memory s ∷ [])) ∷ []))) };

    ghost refuses = { λ v. elim v [
      | the_request.Ping ↦ OfSink
      | the_request.Get a1 ↦ OfParts ⊥ (⟦<u64 as Serialize>⟧.refuses a1 ∷ [])
      | the_request.Put a1
          a2 ↦ OfParts ⊥ (⟦<u64 as Serialize>⟧.refuses a1 ∷ (⟦<Value as Serialize>⟧.refuses a2 ∷ []))
    ] };

    #[tactic(auto, unfolding(rmp_encode::specs::Data::lower))]
    fn serialize<W: Sink, C: SerializerConfig>(
        &self,
        se: &mut Serializer<W, C>,
    ) -> Result<(), rmp_encode::Error> {
        match self {
            Request::Ping => se.serialize_unit_variant("Request", 0, "Ping"),
            Request::Get(first) => se.serialize_newtype_variant("Request", 1, "Get", first),
            Request::Put(first, second) => {
                let parts = rmp_encode::Both { first, second };
                se.serialize_tuple_variant_of("Request", 2, "Put", &parts)
            }
        }
    }

    fn as_u8(&self, _human: bool) -> Option<u8> {
        match self {
            Request::Ping => None,
            Request::Get(_) => None,
            Request::Put(_, _) => None,
        }
    }
}

impl<'de, R: ReadSlice<'de>> Deserialize<'de, R> for Request {
    ghost reads = { λ human lends m v. OfVariant (codes "Ping" ∷ (codes "Get" ∷ (codes "Put" ∷ [])))
        (Case (λ c. (v ≡ the_request.Ping) × Bare c) (Case
        (λ c. (a1 : _) × (v ≡ the_request.Get a1) × Content (λ k. ⟦<u64 as Deserialize<'de, R>>⟧.reads human lends k a1) c)
        (Case (λ c. (a1 : _) × (a2 : _) × (v ≡ the_request.Put a1 a2)
        × Content (λ k. OfRow (AndThen (λ j. ⟦<u64 as Deserialize<'de, R>>⟧.reads human lends j a1)
        (AndThen (λ j. ⟦<Value as Deserialize<'de, R>>⟧.reads human lends j a2) NoMore)) k) c) NoCase))) m };

    ghost absent = { None };

    ghost refuses = { RefusesEnum (codes "Ping" ∷ (codes "Get" ∷ (codes "Put" ∷ [])))
        (no_content ∷ (with_content (⟦<u64 as Deserialize<'de, R>>⟧.refuses)
        ∷ (with_content (RefusesTuple (part_of ⟦<u64 as Deserialize<'de, R>>⟧.reads ⟦<u64 as Deserialize<'de, R>>⟧.refuses
        ∷ (part_of ⟦<Value as Deserialize<'de, R>>⟧.reads ⟦<Value as Deserialize<'de, R>>⟧.refuses ∷ []))) ∷ []))) };

    fn deserialize<C: SerializerConfig>(
        de: &mut Deserializer<R, C>,
    ) -> Result<Request, rmp_decode::Error> {
        match de.deserialize_enum(&["Ping", "Get", "Put"]) {
            Ok((0, variant)) => match variant.unit_variant() {
                Ok(()) => return Ok(Request::Ping),
                Err(e) => return Err(e),
            },
            Ok((1, variant)) => match variant.newtype_variant() {
                Ok(first) => return Ok(Request::Get(first)),
                Err(e) => return Err(e),
            },
            Ok((_, variant)) => match variant.newtype_variant() {
                Ok(parts) => {
                    let (first, second) = parts;
                    return Ok(Request::Put(first, second));
                }
                Err(e) => return Err(e),
            },
            Err(e) => return Err(e),
        }
    }

    fn missing() -> Option<Request> {
        None
    }
}

impl<'de, R: ReadSlice<'de>> RoundTrip<'de, R> for Request {
    ghost has_data = { λ human. elim [
      | the_request.Ping ↦ refl
      | the_request.Get a1 ↦ newtype_variant_some (codes "Get")
          (⟦<u64 as Serialize>⟧.data_of a1 human) refl
      | the_request.Put a1 a2 ↦ tuple_variant_all (codes "Put")
          (⟦<u64 as Serialize>⟧.data_of a1 human ∷ (⟦<Value as Serialize>⟧.data_of a2 human ∷ [])) (refl, (refl, tt))
    ] };

    ghost round = { λ lent s. let names = codes "Ping" ∷ (codes "Get" ∷ (codes "Put" ∷ []))
        in elim [
          | the_request.Ping ↦ λ fits. bare_row s names (codes "Ping") 0 refl _ (refl, tt)
          | the_request.Get a1 ↦ λ fits. newtype_variant_row s names
              (codes "Get") 1 refl _ _ (λ j. ⟦<u64 as Deserialize<'de, R>>⟧.reads s.human R.lends j a1) (λ m h. (a1, refl, h)) (unsigned_row_64 s a1 fits)
          | the_request.Put a1 a2 ↦ λ fits. tuple_variant_row s names (codes "Put") 2 refl _ _ _ (λ m h. (a1, a2, refl, h))
              (rows_cons s _ _ (λ j. ⟦<u64 as Deserialize<'de, R>>⟧.reads s.human R.lends j a1) _ (unsigned_row_64 s a1 fits.0)
              (rows_cons s _ _ (λ j. ⟦<Value as Deserialize<'de, R>>⟧.reads s.human R.lends j a2) _ (value_row s a2 fits.1.1) (rows_none s)))
        ] };

    ghost same = { λ v w. elim v [
      | the_request.Ping ↦ (w ≡ the_request.Ping)
      | the_request.Get a1 ↦ (b1 : _) × (w ≡ the_request.Get b1)
          × ⟦<u64 as RoundTrip<'de, R>>⟧.same a1 b1
      | the_request.Put a1 a2 ↦ (b1 : _) × (b2 : _) × (w ≡ the_request.Put b1 b2)
          × ⟦<u64 as RoundTrip<'de, R>>⟧.same a1 b1 × ⟦<Value as RoundTrip<'de, R>>⟧.same a2 b2
    ] };

    ghost alike = { λ human. elim [
      | the_request.Ping ↦ λ w h. variant_alike (λ x. ⟦<Request as Serialize>⟧.data_of x human) w the_request.Ping h
          (λ i. Some (unit_variant (codes "Ping")))
      | the_request.Get a1 ↦ λ w h. variant_alike (λ x. ⟦<Request as Serialize>⟧.data_of x human) w
          (the_request.Get h.0) h.1 (λ i. newtype_variant_of (codes "Get") (⟦<u64 as Serialize>⟧.data_of (h.2 i) human))
      | the_request.Put a1 a2 ↦ λ w h.
          variant_alike (λ x. ⟦<Request as Serialize>⟧.data_of x human) w (the_request.Put h.0 h.1) h.2
          (λ i. tuple_variant_of (codes "Put") ((⟦<u64 as Serialize>⟧.data_of (h.3 i) human) ∷ ((⟦<Value as Serialize>⟧.data_of (h.4 i) human) ∷ [])))
    ] };

    ghost only = { λ s. let names = codes "Ping" ∷ (codes "Get" ∷ (codes "Put" ∷ []))
        in elim [
          | the_request.Ping ↦ λ fits. lowers_then s (Some (unit_variant (codes "Ping"))) (OfVariant names (AtPlace 0 AnyContent)) (λ m. (w : _)
              → (⟦<Request as Deserialize<'de, R>>⟧.reads s.human R.lends) m w
              → (w ≡ the_request.Ping)) (bare_row s names (codes "Ping") 0 refl (AtPlace 0 AnyContent) (refl, tt))
              (λ m q w r. variant_both names 0 AnyContent _ _ m q r (λ c a b. b.0))
          | the_request.Get a1 ↦ λ fits. lowers_then s _ _ (λ m. (w : _)
              → (⟦<Request as Deserialize<'de, R>>⟧.reads s.human R.lends) m w
              → (b1 : _) × (w ≡ the_request.Get b1) × ⟦<u64 as RoundTrip<'de, R>>⟧.same a1 b1)
              (newtype_variant_row s names (codes "Get") 1 refl (AtPlace 1
              (Content (λ j. Only (⟦<u64 as Deserialize<'de, R>>⟧.reads s.human R.lends) ⟦<u64 as RoundTrip<'de, R>>⟧.same j a1))) _
              (λ j. Only (⟦<u64 as Deserialize<'de, R>>⟧.reads s.human R.lends) ⟦<u64 as RoundTrip<'de, R>>⟧.same j a1) (λ m h. (refl, h))
              (unsigned_only s 18446744073709551615 a1)) (λ m q w r. variant_both names 1 _ _ _ m q r
              (λ c a b. (b.0, b.1, content_only (⟦<u64 as Deserialize<'de, R>>⟧.reads s.human R.lends) ⟦<u64 as RoundTrip<'de, R>>⟧.same a1 b.0 c a b.2)))
          | the_request.Put a1 a2 ↦ λ fits. lowers_then s _ _ (λ m. (w : _) → (⟦<Request as Deserialize<'de, R>>⟧.reads s.human R.lends) m w
              → (b1 : _) × (b2 : _) × (w ≡ the_request.Put b1 b2) × ⟦<u64 as RoundTrip<'de, R>>⟧.same a1 b1 × ⟦<Value as RoundTrip<'de, R>>⟧.same a2 b2)
              (tuple_variant_row s names (codes "Put") 2 refl (AtPlace 2
              (Content (OfRow (AndThen (λ j. Only (⟦<u64 as Deserialize<'de, R>>⟧.reads s.human R.lends) ⟦<u64 as RoundTrip<'de, R>>⟧.same j a1)
              (AndThen (λ j. Only (⟦<Value as Deserialize<'de, R>>⟧.reads s.human R.lends) ⟦<Value as RoundTrip<'de, R>>⟧.same j a2) NoMore))))) _ _
              (λ m h. (refl, h)) (rows_cons s _ _ (λ j. Only (⟦<u64 as Deserialize<'de, R>>⟧.reads s.human R.lends) ⟦<u64 as RoundTrip<'de, R>>⟧.same j a1) _
              (unsigned_only s 18446744073709551615 a1) (rows_cons s _ _
              (λ j. Only (⟦<Value as Deserialize<'de, R>>⟧.reads s.human R.lends) ⟦<Value as RoundTrip<'de, R>>⟧.same j a2) _ (value_only s a2) (rows_none s))))
              (λ m q w r. variant_both names 2 _ _ _ m q r (λ c a b. content_row _ _ _ c a b.3
              (λ ks i j. let x = item_only (⟦<u64 as Deserialize<'de, R>>⟧.reads s.human R.lends) ⟦<u64 as RoundTrip<'de, R>>⟧.same a1 b.0 _ _ _
              (last_only (⟦<Value as Deserialize<'de, R>>⟧.reads s.human R.lends) ⟦<Value as RoundTrip<'de, R>>⟧.same a2 b.1) ks i j
              in (b.0, b.1, b.2, x.0, x.1))))
        ] };
}

impl NeverNil for Request {
    ghost never_nil = { λ s. elim [
      | the_request.Ping ↦ bare_other s (codes "Ping")
      | the_request.Get a1 ↦ newtype_variant_other s (codes "Get") _
      | the_request.Put a1 a2 ↦ tuple_variant_other s (codes "Put") _
    ] };
}

impl<'de, R: ReadSlice<'de>> EndsInside<'de, R> for Request {
    ghost ends_inside = { enum_inside _ _ (
      no_content_inside,
      (
        with_content_inside _ (number_inside),
        (
          with_content_inside _
              (tuple_inside (part_of ⟦<u64 as Deserialize<'de, R>>⟧.reads ⟦<u64 as Deserialize<'de, R>>⟧.refuses
              ∷ (part_of ⟦<Value as Deserialize<'de, R>>⟧.reads ⟦<Value as Deserialize<'de, R>>⟧.refuses ∷ [])) (number_inside, (value_inside, tt))),
          tt,
        ),
      ),
    ) };
}
