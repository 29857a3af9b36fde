//! A struct whose fields are read one after another.
ghost use Rattle.std.specs.Prelude.{◌≡◌, [], ◌∷◌, None, Some, codes};
ghost use Rattle.std.specs.String.{string_bytes};
ghost use Rattle.rmp_decode.specs.Fields.{OfFields, Field, Absent, NoField};
ghost use Rattle.rmp_decode.specs.Read.{IsRaw, IsUnsigned};

use crate::structs::Weight;
use rmp_decode::{Deserialize, Deserializer, Error};
use rmp_wire::ReadSlice;
use rmp_wire::config::SerializerConfig;

/// A young dog's name and weight.
#[derive(Drop)]
pub struct Pup {
    pub name: String,
    pub weight: Weight,
}

impl<'de, R: ReadSlice<'de>> Deserialize<'de, R> for Pup {
    ghost reads = { λ human lends m v. OfFields (codes "name" ∷ (codes "weight" ∷ []))
        (Field (λ k. IsRaw k (string_bytes v.name)) (Absent None v.name)
        (Field (λ k. IsUnsigned 4294967295 k v.weight.grams) (Absent (Some (record { grams = 7 })) v.weight) NoField)) m };

    ghost absent = { None };

    fn deserialize<C: SerializerConfig>(de: &mut Deserializer<R, C>) -> Result<Pup, Error> {
        let mut fields = match de.deserialize_struct("Pup", &["name", "weight"]) {
            Ok(fields) => fields,
            Err(e) => return Err(e),
        };
        let mut name: Option<String> = None;
        let mut weight: Option<Weight> = None;
        loop {
            match fields.next_field() {
                Ok(Some(0)) => match fields.next_value() {
                    Ok(value) => name = Some(value),
                    Err(e) => return Err(e),
                },
                Ok(Some(_)) => match fields.next_value() {
                    Ok(value) => weight = Some(value),
                    Err(e) => return Err(e),
                },
                Ok(None) => break,
                Err(e) => return Err(e),
            }
        }
        let name = match name {
            Some(name) => name,
            None => match fields.missing_field("name") {
                Ok(name) => name,
                Err(e) => return Err(e),
            },
        };
        let weight = match weight {
            Some(weight) => weight,
            None => match fields.missing_field("weight") {
                Ok(weight) => weight,
                Err(e) => return Err(e),
            },
        };
        match fields.end() {
            Ok(()) => Ok(Pup { name, weight }),
            Err(e) => Err(e),
        }
    }

    fn missing() -> Option<Pup> {
        None
    }
}
