//! Fields that have a default.
ghost use Rattle.std.specs.Prelude.{None, Some};
ghost use Rattle.rmp_decode.specs.Defaults.{IsGiven};

use crate::de::Deserialize;
use crate::deserializer::Deserializer;
use crate::error::Error;
use rmp_wire::ReadSlice;
use rmp_wire::config::SerializerConfig;

/// The value of a field that has a default, or `None` if a map doesn't have the field.
///
/// Any message that is there is read as a `T`, so unlike for an `Option`, nil isn't `None`. tools/derive.py reads
/// fields with a `// derive: default` as this type, and replaces `None` by the default.
#[derive(Drop)]
pub struct Defaulted<T> {
    pub value: Option<T>,
}

impl<'de, R: ReadSlice<'de>, T: Deserialize<'de, R>> Deserialize<'de, R> for Defaulted<T> {
    ghost reads = { λ human lends m v. IsGiven (T.reads human lends m) v.value };

    ghost absent = { Some (record { value = None }) };

    ghost refuses = { T.refuses };

    ghost takes_memory = { T.takes_memory };

    #[inline(always)]
    fn deserialize<C: SerializerConfig>(
        de: &mut Deserializer<R, C>,
    ) -> Result<Defaulted<T>, Error> {
        match T::deserialize(de) {
            Ok(value) => Ok(Defaulted { value: Some(value) }),
            Err(e) => Err(e),
        }
    }

    fn missing() -> Option<Defaulted<T>> {
        Some(Defaulted { value: None })
    }
}
