//! A newtype of a byte, which is no byte itself.
ghost use Rattle.std.specs.Prelude.{◌<◌, false, Some};
ghost use Rattle.rmp_encode.specs.Data.{byte, wrapped};

use rmp_encode::{Error, Serialize, Serializer};
use rmp_wire::Sink;
use rmp_wire::config::SerializerConfig;

/// A newtype struct of a byte. It is written as the byte, but a list of such is never packed as bytes.
#[derive(Clone, Copy, Drop)]
pub struct NewU8(pub u8);

impl Serialize for NewU8 {
    ghost data_of = { λ v _. Some (wrapped (byte v.0)) };

    ghost is_value = { λ v. v.0 < 256 };

    ghost takes_memory = { λ _. false };

    #[tactic(auto, unfolding(rmp_encode::specs::Data::lower))]
    fn serialize<W: Sink, C: SerializerConfig>(
        &self,
        se: &mut Serializer<W, C>,
    ) -> Result<(), Error> {
        se.serialize_u8(self.0)
    }

    fn as_u8(&self, _human: bool) -> Option<u8> {
        None
    }
}
