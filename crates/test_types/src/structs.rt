//! Structs of named fields that are read by one call.
ghost use Rattle.std.specs.Prelude.{◌≡◌, [], ◌∷◌, None, Some, codes};
ghost use Rattle.std.specs.String.{string_bytes};
ghost use Rattle.rmp_decode.specs.Fields.{OfFields, Field, Absent, NoField};
ghost use Rattle.rmp_decode.specs.Read.{IsRaw, IsUnsigned};

use rmp_decode::{Deserialize, Deserializer, Error};
use rmp_wire::ReadSlice;
use rmp_wire::config::SerializerConfig;

/// A number that is 7 where it is missing.
#[derive(Clone, Copy)]
pub struct Weight {
    pub grams: u32,
}

impl<'de, R: ReadSlice<'de>> Deserialize<'de, R> for Weight {
    ghost reads = { λ human lends m v. IsUnsigned 4294967295 m v.grams };

    ghost absent = { Some (record { grams = 7 }) };

    fn deserialize<C: SerializerConfig>(de: &mut Deserializer<R, C>) -> Result<Weight, Error> {
        match de.deserialize_u32() {
            Ok(grams) => Ok(Weight { grams }),
            Err(e) => Err(e),
        }
    }

    fn missing() -> Option<Weight> {
        Some(Weight { grams: 7 })
    }
}

/// A dog's name, age and weight.
#[derive(Drop)]
pub struct Dog {
    pub name: String,
    pub age: u16,
    pub weight: Weight,
}

impl<'de, R: ReadSlice<'de>> Deserialize<'de, R> for Dog {
    ghost reads = { λ human lends m v. OfFields (codes "name" ∷ (codes "age" ∷ (codes "weight" ∷ [])))
        (Field (λ k. IsRaw k (string_bytes v.name)) (Absent None v.name)
        (Field (λ k. IsUnsigned 65535 k v.age) (Absent None v.age)
        (Field (λ k. IsUnsigned 4294967295 k v.weight.grams) (Absent (Some (record { grams = 7 })) v.weight) NoField))) m };

    ghost absent = { None };

    fn deserialize<C: SerializerConfig>(de: &mut Deserializer<R, C>) -> Result<Dog, Error> {
        let read: Result<(String, (u16, (Weight, ()))), Error> = de.deserialize_fields(&[
            "name", "age", "weight",
        ]);
        match read {
            Ok((name, (age, (weight, ())))) => Ok(Dog { name, age, weight }),
            Err(e) => Err(e),
        }
    }

    fn missing() -> Option<Dog> {
        None
    }
}

/// Eight fields of several types.
#[derive(Drop)]
pub struct Wide {
    pub zeta: String,
    pub alpha: u8,
    pub beta: u16,
    pub gamma: u32,
    pub delta: u64,
    pub epsilon: bool,
    pub eta: u8,
    pub theta: u32,
}

impl<'de, R: ReadSlice<'de>> Deserialize<'de, R> for Wide {
    ghost use Rattle.rmp_wire.specs.Msg.{truth};

    ghost reads = { λ human lends m v. OfFields (codes "zeta"
        ∷ (codes "alpha" ∷ (codes "beta" ∷ (codes "gamma" ∷ (codes "delta" ∷ (codes "epsilon" ∷ (codes "eta" ∷ (codes "theta" ∷ []))))))))
        (Field (λ k. IsRaw k (string_bytes v.zeta)) (Absent None v.zeta)
        (Field (λ k. IsUnsigned 255 k v.alpha) (Absent None v.alpha)
        (Field (λ k. IsUnsigned 65535 k v.beta) (Absent None v.beta)
        (Field (λ k. IsUnsigned 4294967295 k v.gamma) (Absent None v.gamma)
        (Field (λ k. IsUnsigned 18446744073709551615 k v.delta) (Absent None v.delta)
        (Field (λ k. k ≡ truth v.epsilon) (Absent None v.epsilon)
        (Field (λ k. IsUnsigned 255 k v.eta) (Absent None v.eta)
        (Field (λ k. IsUnsigned 4294967295 k v.theta) (Absent None v.theta) NoField)))))))) m };

    ghost absent = { None };

    fn deserialize<C: SerializerConfig>(de: &mut Deserializer<R, C>) -> Result<Wide, Error> {
        let read: Result<(String, (u8, (u16, (u32, (u64, (bool, (u8, (u32, ())))))))), Error> =
            de.deserialize_fields(&[
                "zeta", "alpha", "beta", "gamma", "delta", "epsilon", "eta", "theta",
            ]);
        match read {
            Ok((zeta, (alpha, (beta, (gamma, (delta, (epsilon, (eta, (theta, ()))))))))) => Ok(
                Wide {
                    zeta,
                    alpha,
                    beta,
                    gamma,
                    delta,
                    epsilon,
                    eta,
                    theta,
                },
            ),
            Err(e) => Err(e),
        }
    }

    fn missing() -> Option<Wide> {
        None
    }
}

/// Two texts.
#[derive(Drop)]
pub struct Named {
    pub first: String,
    pub last: String,
}

impl<'de, R: ReadSlice<'de>> Deserialize<'de, R> for Named {
    ghost reads = { λ human lends m v. OfFields (codes "first" ∷ (codes "last" ∷ []))
        (Field (λ k. IsRaw k (string_bytes v.first)) (Absent None v.first)
        (Field (λ k. IsRaw k (string_bytes v.last)) (Absent None v.last) NoField)) m };

    ghost absent = { None };

    fn deserialize<C: SerializerConfig>(de: &mut Deserializer<R, C>) -> Result<Named, Error> {
        let read: Result<(String, (String, ())), Error> = de.deserialize_fields(&["first", "last"]);
        match read {
            Ok((first, (last, ()))) => Ok(Named { first, last }),
            Err(e) => Err(e),
        }
    }

    fn missing() -> Option<Named> {
        None
    }
}

/// A number and a text.
#[derive(Drop)]
pub struct Tagged {
    pub tag: u8,
    pub name: String,
}

impl<'de, R: ReadSlice<'de>> Deserialize<'de, R> for Tagged {
    ghost reads = { λ human lends m v. OfFields (codes "tag" ∷ (codes "name" ∷ []))
        (Field (λ k. IsUnsigned 255 k v.tag) (Absent None v.tag)
        (Field (λ k. IsRaw k (string_bytes v.name)) (Absent None v.name) NoField)) m };

    ghost absent = { None };

    fn deserialize<C: SerializerConfig>(de: &mut Deserializer<R, C>) -> Result<Tagged, Error> {
        let read: Result<(u8, (String, ())), Error> = de.deserialize_fields(&["tag", "name"]);
        match read {
            Ok(fields) => {
                let (tag, (name, ())) = fields;
                Ok(Tagged { tag, name })
            }
            Err(e) => Err(e),
        }
    }

    fn missing() -> Option<Tagged> {
        None
    }
}
