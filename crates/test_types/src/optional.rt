//! An option of a byte, which is no byte itself.
ghost use Rattle.std.specs.Prelude.{◌<◌, ◌^◌, false, Some, IfSome};
ghost use Rattle.test_types.specs.Optional.{optional};

use rmp_encode::{Error, Serialize, Serializer};
use rmp_wire::Sink;
use rmp_wire::config::SerializerConfig;

/// A byte, or none. It is written as the byte or as nil, but a list of such is never packed as bytes, also where each is there.
#[derive(Clone, Copy, Drop)]
pub struct OptionalByte(pub Option<u8>);

impl Serialize for OptionalByte {
    ghost data_of = { λ v _. Some (optional v.0) };

    ghost is_value = { λ v. IfSome v.0 (λ n. n < 2 ^ 8) };

    ghost takes_memory = { λ _. false };

    #[tactic(auto, unfolding(rmp_encode::specs::Data::lower))]
    fn serialize<W: Sink, C: SerializerConfig>(
        &self,
        se: &mut Serializer<W, C>,
    ) -> Result<(), Error> {
        if let Some(n) = self.0 {
            se.serialize_u8(n)
        } else {
            se.serialize_unit()
        }
    }

    fn as_u8(&self, _human: bool) -> Option<u8> {
        None
    }
}
