//! Tuples of one to eight elements. Written by tools/tuples.py.
//!
//! In the modes `Normal` and `ForceIterables` writing them takes no memory but by their elements and the sink.
ghost use Rattle.std.specs.Prelude.{◌∷◌, ◌||◌, []};
ghost use Rattle.rmp_encode.specs.Refusals.{OfParts};
ghost use Rattle.rmp_encode.specs.Sizes.{one_of};
ghost use Rattle.rmp_encode.specs.Trees.{forces_all, tuple_of};

use crate::elements::{Both, Eight, Five, Four, One, Seven, Six, Three};
use crate::error::Error;
use crate::ser::Serialize;
use crate::serializer::Serializer;
use crate::tuple::put_row;
use rmp_wire::Sink;
use rmp_wire::config::SerializerConfig;

impl<E1: Serialize> Serialize for (E1,) {
    ghost data_of = { λ v human. tuple_of (E1.data_of v.0 human ∷ []) };

    ghost is_value = { λ v. E1.is_value v.0 };

    ghost takes_memory = { λ s. forces_all s.bytes || one_of (E1.takes_memory s ∷ []) };

    ghost refuses = { λ v. OfParts ⊥ (E1.refuses v.0 ∷ []) };

    fn serialize<W: Sink, C: SerializerConfig>(
        &self,
        se: &mut Serializer<W, C>,
    ) -> Result<(), Error> {
        let elements = One { first: &self.0 };
        put_row(se, 1, &elements)
    }

    #[tactic(auto, using(crate::proofs::Packing::tuple_no_byte))]
    #[inline(always)]
    fn as_u8(&self, _human: bool) -> Option<u8> {
        None
    }
}

impl<E1: Serialize, E2: Serialize> Serialize for (E1, E2) {
    ghost data_of = { λ v human. tuple_of (E1.data_of v.0 human ∷ E2.data_of v.1 human ∷ []) };

    ghost is_value = { λ v. E1.is_value v.0 × E2.is_value v.1 };

    ghost takes_memory = { λ s. forces_all s.bytes || one_of (E1.takes_memory s ∷ (E2.takes_memory s ∷ [])) };

    ghost refuses = { λ v. OfParts ⊥ (E1.refuses v.0 ∷ (E2.refuses v.1 ∷ [])) };

    fn serialize<W: Sink, C: SerializerConfig>(
        &self,
        se: &mut Serializer<W, C>,
    ) -> Result<(), Error> {
        let elements = Both {
            first: &self.0,
            second: &self.1,
        };
        put_row(se, 2, &elements)
    }

    #[tactic(auto, using(crate::proofs::Packing::tuple_no_byte))]
    #[inline(always)]
    fn as_u8(&self, _human: bool) -> Option<u8> {
        None
    }
}

impl<E1: Serialize, E2: Serialize, E3: Serialize> Serialize for (E1, E2, E3) {
    ghost data_of = { λ v human. tuple_of (E1.data_of v.0 human ∷ E2.data_of v.1 human ∷ E3.data_of v.2 human ∷ []) };

    ghost is_value = { λ v. E1.is_value v.0 × E2.is_value v.1 × E3.is_value v.2 };

    ghost takes_memory = { λ s. forces_all s.bytes || one_of (E1.takes_memory s ∷ (E2.takes_memory s ∷ (E3.takes_memory s ∷ []))) };

    ghost refuses = { λ v. OfParts ⊥ (E1.refuses v.0 ∷ (E2.refuses v.1 ∷ (E3.refuses v.2 ∷ []))) };

    fn serialize<W: Sink, C: SerializerConfig>(
        &self,
        se: &mut Serializer<W, C>,
    ) -> Result<(), Error> {
        let elements = Three {
            first: &self.0,
            second: &self.1,
            third: &self.2,
        };
        put_row(se, 3, &elements)
    }

    #[tactic(auto, using(crate::proofs::Packing::tuple_no_byte))]
    #[inline(always)]
    fn as_u8(&self, _human: bool) -> Option<u8> {
        None
    }
}

impl<E1: Serialize, E2: Serialize, E3: Serialize, E4: Serialize> Serialize for (E1, E2, E3, E4) {
    ghost data_of = { λ v human. tuple_of (E1.data_of v.0 human ∷ E2.data_of v.1 human ∷ E3.data_of v.2 human ∷ E4.data_of v.3 human ∷ []) };

    ghost is_value = { λ v. E1.is_value v.0 × E2.is_value v.1 × E3.is_value v.2 × E4.is_value v.3 };

    ghost takes_memory = { λ s. forces_all s.bytes || one_of (E1.takes_memory s ∷ (E2.takes_memory s ∷ (E3.takes_memory s ∷ (E4.takes_memory s ∷ [])))) };

    ghost refuses = { λ v. OfParts ⊥ (E1.refuses v.0 ∷ (E2.refuses v.1 ∷ (E3.refuses v.2 ∷ (E4.refuses v.3 ∷ [])))) };

    fn serialize<W: Sink, C: SerializerConfig>(
        &self,
        se: &mut Serializer<W, C>,
    ) -> Result<(), Error> {
        let elements = Four {
            first: &self.0,
            second: &self.1,
            third: &self.2,
            fourth: &self.3,
        };
        put_row(se, 4, &elements)
    }

    #[tactic(auto, using(crate::proofs::Packing::tuple_no_byte))]
    #[inline(always)]
    fn as_u8(&self, _human: bool) -> Option<u8> {
        None
    }
}

impl<E1: Serialize, E2: Serialize, E3: Serialize, E4: Serialize, E5: Serialize> Serialize
    for (E1, E2, E3, E4, E5) {
    ghost data_of = { λ v human. tuple_of (E1.data_of v.0 human ∷ E2.data_of v.1 human ∷ E3.data_of v.2 human ∷ E4.data_of v.3 human ∷ E5.data_of v.4 human
        ∷ []) };

    ghost is_value = { λ v. E1.is_value v.0 × E2.is_value v.1 × E3.is_value v.2 × E4.is_value v.3 × E5.is_value v.4 };

    ghost takes_memory = { λ s. forces_all s.bytes || one_of
        (E1.takes_memory s ∷ (E2.takes_memory s ∷ (E3.takes_memory s ∷ (E4.takes_memory s ∷ (E5.takes_memory s ∷ []))))) };

    ghost refuses = { λ v. OfParts ⊥ (E1.refuses v.0 ∷ (E2.refuses v.1 ∷ (E3.refuses v.2 ∷ (E4.refuses v.3 ∷ (E5.refuses v.4 ∷ []))))) };

    fn serialize<W: Sink, C: SerializerConfig>(
        &self,
        se: &mut Serializer<W, C>,
    ) -> Result<(), Error> {
        let elements = Five {
            first: &self.0,
            second: &self.1,
            third: &self.2,
            fourth: &self.3,
            fifth: &self.4,
        };
        put_row(se, 5, &elements)
    }

    #[tactic(auto, using(crate::proofs::Packing::tuple_no_byte))]
    #[inline(always)]
    fn as_u8(&self, _human: bool) -> Option<u8> {
        None
    }
}

impl<
    E1: Serialize,
    E2: Serialize,
    E3: Serialize,
    E4: Serialize,
    E5: Serialize,
    E6: Serialize,
> Serialize for (E1, E2, E3, E4, E5, E6) {
    ghost data_of = { λ v human. tuple_of (E1.data_of v.0 human ∷ E2.data_of v.1 human ∷ E3.data_of v.2 human ∷ E4.data_of v.3 human ∷ E5.data_of v.4 human
        ∷ E6.data_of v.5 human ∷ []) };

    ghost is_value = { λ v. E1.is_value v.0 × E2.is_value v.1 × E3.is_value v.2 × E4.is_value v.3 × E5.is_value v.4 × E6.is_value v.5 };

    ghost takes_memory = { λ s. forces_all s.bytes || one_of
        (E1.takes_memory s ∷ (E2.takes_memory s ∷ (E3.takes_memory s ∷ (E4.takes_memory s ∷ (E5.takes_memory s ∷ (E6.takes_memory s ∷ [])))))) };

    ghost refuses = { λ v. OfParts ⊥ (E1.refuses v.0 ∷ (E2.refuses v.1 ∷ (E3.refuses v.2 ∷ (E4.refuses v.3 ∷ (E5.refuses v.4 ∷ (E6.refuses v.5 ∷ [])))))) };

    fn serialize<W: Sink, C: SerializerConfig>(
        &self,
        se: &mut Serializer<W, C>,
    ) -> Result<(), Error> {
        let elements = Six {
            first: &self.0,
            second: &self.1,
            third: &self.2,
            fourth: &self.3,
            fifth: &self.4,
            sixth: &self.5,
        };
        put_row(se, 6, &elements)
    }

    #[tactic(auto, using(crate::proofs::Packing::tuple_no_byte))]
    #[inline(always)]
    fn as_u8(&self, _human: bool) -> Option<u8> {
        None
    }
}

impl<
    E1: Serialize,
    E2: Serialize,
    E3: Serialize,
    E4: Serialize,
    E5: Serialize,
    E6: Serialize,
    E7: Serialize,
> Serialize for (E1, E2, E3, E4, E5, E6, E7) {
    ghost data_of = { λ v human. tuple_of (E1.data_of v.0 human ∷ E2.data_of v.1 human ∷ E3.data_of v.2 human ∷ E4.data_of v.3 human ∷ E5.data_of v.4 human
        ∷ E6.data_of v.5 human ∷ E7.data_of v.6 human ∷ []) };

    ghost is_value = { λ v. E1.is_value v.0 × E2.is_value v.1 × E3.is_value v.2 × E4.is_value v.3 × E5.is_value v.4 × E6.is_value v.5 × E7.is_value v.6 };

    ghost takes_memory = { λ s. forces_all s.bytes || one_of
        (E1.takes_memory s ∷ (E2.takes_memory s ∷ (E3.takes_memory s
        ∷ (E4.takes_memory s ∷ (E5.takes_memory s ∷ (E6.takes_memory s ∷ (E7.takes_memory s ∷ []))))))) };

    ghost refuses = { λ v. OfParts ⊥ (E1.refuses v.0 ∷
        (E2.refuses v.1 ∷ (E3.refuses v.2 ∷ (E4.refuses v.3 ∷ (E5.refuses v.4 ∷ (E6.refuses v.5 ∷ (E7.refuses v.6 ∷ []))))))) };

    fn serialize<W: Sink, C: SerializerConfig>(
        &self,
        se: &mut Serializer<W, C>,
    ) -> Result<(), Error> {
        let elements = Seven {
            first: &self.0,
            second: &self.1,
            third: &self.2,
            fourth: &self.3,
            fifth: &self.4,
            sixth: &self.5,
            seventh: &self.6,
        };
        put_row(se, 7, &elements)
    }

    #[tactic(auto, using(crate::proofs::Packing::tuple_no_byte))]
    #[inline(always)]
    fn as_u8(&self, _human: bool) -> Option<u8> {
        None
    }
}

impl<
    E1: Serialize,
    E2: Serialize,
    E3: Serialize,
    E4: Serialize,
    E5: Serialize,
    E6: Serialize,
    E7: Serialize,
    E8: Serialize,
> Serialize for (E1, E2, E3, E4, E5, E6, E7, E8) {
    ghost data_of = { λ v human. tuple_of (E1.data_of v.0 human ∷ E2.data_of v.1 human ∷ E3.data_of v.2 human ∷ E4.data_of v.3 human ∷ E5.data_of v.4 human
        ∷ E6.data_of v.5 human ∷ E7.data_of v.6 human ∷ E8.data_of v.7 human ∷ []) };

    ghost is_value = { λ v. E1.is_value v.0 × E2.is_value v.1 × E3.is_value v.2 × E4.is_value v.3 × E5.is_value v.4 × E6.is_value v.5 × E7.is_value v.6
        × E8.is_value v.7 };

    ghost takes_memory = { λ s. forces_all s.bytes || one_of
        (E1.takes_memory s ∷ (E2.takes_memory s ∷ (E3.takes_memory s
        ∷ (E4.takes_memory s ∷ (E5.takes_memory s ∷ (E6.takes_memory s ∷ (E7.takes_memory s ∷ (E8.takes_memory s ∷ [])))))))) };

    ghost refuses = { λ v. OfParts ⊥ (E1.refuses v.0 ∷
        (E2.refuses v.1 ∷ (E3.refuses v.2 ∷ (E4.refuses v.3 ∷ (E5.refuses v.4 ∷ (E6.refuses v.5 ∷ (E7.refuses v.6 ∷ (E8.refuses v.7 ∷ [])))))))) };

    fn serialize<W: Sink, C: SerializerConfig>(
        &self,
        se: &mut Serializer<W, C>,
    ) -> Result<(), Error> {
        let elements = Eight {
            first: &self.0,
            second: &self.1,
            third: &self.2,
            fourth: &self.3,
            fifth: &self.4,
            sixth: &self.5,
            seventh: &self.6,
            eighth: &self.7,
        };
        put_row(se, 8, &elements)
    }

    #[tactic(auto, using(crate::proofs::Packing::tuple_no_byte))]
    #[inline(always)]
    fn as_u8(&self, _human: bool) -> Option<u8> {
        None
    }
}
