//! A tuple struct that is read part by part.
ghost use Rattle.std.specs.Prelude.{None, string_bytes};
ghost use Rattle.rmp_decode.specs.Read.{IsRaw, IsUnsigned};
ghost use Rattle.rmp_decode.specs.Rows.{AndThen, NoMore};
ghost use Rattle.rmp_decode.specs.Seq.{OfRow};

use rmp_decode::{Deserialize, Deserializer, Error};
use rmp_wire::ReadSlice;
use rmp_wire::config::SerializerConfig;

/// A number and its name.
#[derive(Drop)]
pub struct Named(pub u32, pub String);

impl<'de, R: ReadSlice<'de>> Deserialize<'de, R> for Named {
    ghost reads = { λ human lends m v. OfRow (AndThen (λ k. IsUnsigned 4294967295 k v.0) (AndThen (λ k. IsRaw k (string_bytes v.1)) NoMore)) m };

    ghost absent = { None };

    fn deserialize<C: SerializerConfig>(de: &mut Deserializer<R, C>) -> Result<Named, Error> {
        let mut seq = match de.deserialize_tuple_struct("Named", 2) {
            Ok(seq) => seq,
            Err(e) => return Err(e),
        };
        let number = match seq.element() {
            Ok(number) => number,
            Err(e) => return Err(e),
        };
        let name = match seq.element() {
            Ok(name) => name,
            Err(e) => return Err(e),
        };
        match seq.end() {
            Ok(()) => Ok(Named(number, name)),
            Err(e) => Err(e),
        }
    }

    fn missing() -> Option<Named> {
        None
    }
}
