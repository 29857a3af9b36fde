//! Values in boxes.
ghost use Rattle.std.specs.Prelude.{None};

use crate::de::Deserialize;
use crate::deserializer::Deserializer;
use crate::error::Error;
use rmp_wire::ReadSlice;
use rmp_wire::config::SerializerConfig;

impl<'de, R: ReadSlice<'de>, T: Deserialize<'de, R>> Deserialize<'de, R> for Box<T> {
    ghost use Rattle.rmp_decode.specs.Refusing.{RefusesBoxed};

    ghost reads = { λ human lends m b. T.reads human lends m b.value };

    ghost absent = { None };

    ghost refuses = { RefusesBoxed T.reads T.refuses };

    fn deserialize<C: SerializerConfig>(de: &mut Deserializer<R, C>) -> Result<Box<T>, Error> {
        let value = match T::deserialize(de) {
            Ok(value) => value,
            Err(e) => return Err(e),
        };
        match Box::new(de.alloc(), value) {
            Ok(boxed) => Ok(boxed),
            Err(_) => Err(de.refuse(Error::OutOfMemory)),
        }
    }

    fn missing() -> Option<Box<T>> {
        None
    }
}
