//! Options.
ghost use Rattle.std.specs.Prelude.{IfSome, MatchOption};
ghost use Rattle.rmp_encode.specs.Refusals.{OfSink};
ghost use Rattle.rmp_encode.specs.Trees.{option_of};
ghost use Rattle.rmp_encode.specs.Writes.{AtItem};

use crate::error::Error;
use crate::ser::Serialize;
use crate::serializer::Serializer;
use rmp_wire::Sink;
use rmp_wire::config::SerializerConfig;

impl<T: Serialize> Serialize for Option<T> {
    ghost data_of = { λ v human. option_of (λ x. T.data_of x human) v };

    ghost is_value = { λ v. IfSome v T.is_value };

    ghost takes_memory = { T.takes_memory };

    ghost refuses = { λ v e. MatchOption v (OfSink e) (λ x. T.refuses x e) };

    ghost marks = { λ v s old new e. MatchOption v (AtItem old new e) (λ x. T.marks x s old new e) };

    #[inline(always)]
    fn serialize<W: Sink, C: SerializerConfig>(
        &self,
        se: &mut Serializer<W, C>,
    ) -> Result<(), Error> {
        match self {
            Some(value) => se.serialize_some(value),
            None => se.serialize_none(),
        }
    }

    #[tactic(auto, using(crate::proofs::Wrapped::option_no_byte))]
    #[inline(always)]
    fn as_u8(&self, _human: bool) -> Option<u8> {
        None
    }
}
