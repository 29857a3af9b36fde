//! Types that are written alone, by each of the calls for structs and variants.
ghost use Rattle.std.specs.Prelude.{◌∷◌, ◌<◌, ◌^◌, [], codes, false, Some, pos, IsUtf8, string_bytes, ⊤};
ghost use Rattle.rmp_encode.specs.Data.{byte, text, truth, whole, wrapped};
ghost use Rattle.rmp_encode.specs.Trees.{newtype_variant_of, sequence_of, structure_of};

use rmp_encode::{Both, Error, Serialize, Serializer, Three};
use rmp_wire::Sink;
use rmp_wire::config::SerializerConfig;

/// A number alone, as a variant of an enum.
#[derive(Clone, Copy, Drop)]
pub struct Leaf(pub u8);

impl Serialize for Leaf {
    ghost data_of = { λ v _. newtype_variant_of (codes "Leaf") (Some (byte v.0)) };

    ghost is_value = { λ v. v.0 < 2 ^ 8 };

    ghost takes_memory = { λ _. false };

    fn serialize<W: Sink, C: SerializerConfig>(
        &self,
        se: &mut Serializer<W, C>,
    ) -> Result<(), Error> {
        se.serialize_newtype_variant("Tree", 0, "Leaf", &self.0)
    }

    #[tactic(auto, using(rmp_encode::proofs::Variants::newtype_no_byte))]
    fn as_u8(&self, _human: bool) -> Option<u8> {
        None
    }
}

/// A dog's name and age.
#[derive(Clone, Copy, Drop)]
pub struct Dog {
    pub name: &'static str,
    pub age: u8,
}

impl Serialize for Dog {
    ghost data_of = { λ v _. structure_of ((codes "name", Some (text v.name.now)) ∷ ((codes "age", Some (byte v.age)) ∷ [])) };

    ghost is_value = { λ v. IsUtf8 v.name.now × (v.age < 2 ^ 8) };

    ghost takes_memory = { λ _. false };

    fn serialize<W: Sink, C: SerializerConfig>(
        &self,
        se: &mut Serializer<W, C>,
    ) -> Result<(), Error> {
        let mut fields = se.serialize_struct("Dog", 2)?;
        fields.serialize_field("name", &self.name)?;
        fields.serialize_field("age", &self.age)?;
        fields.end()
    }

    #[tactic(auto, using(rmp_encode::proofs::Fields::structure_no_byte))]
    fn as_u8(&self, _human: bool) -> Option<u8> {
        None
    }
}

/// A number and a text, written by one call.
#[derive(Drop)]
pub struct Point(pub u16, pub String);

impl Serialize for Point {
    ghost data_of = { λ v _. sequence_of (Some (whole (pos v.0)) ∷ (Some (text (string_bytes v.1)) ∷ [])) };

    ghost is_value = { λ v. (v.0 < 2 ^ 16) × IsUtf8 (string_bytes v.1) };

    ghost takes_memory = { λ _. false };

    fn serialize<W: Sink, C: SerializerConfig>(
        &self,
        se: &mut Serializer<W, C>,
    ) -> Result<(), Error> {
        let parts = Both {
            first: &self.0,
            second: &self.1,
        };
        se.serialize_elements("Point", &parts)
    }

    #[tactic(auto, using(rmp_encode::proofs::Lists::sequence_no_byte))]
    fn as_u8(&self, _human: bool) -> Option<u8> {
        None
    }
}

/// A cat's name, age and whether it is at home, written by one call.
#[derive(Drop)]
pub struct Cat {
    pub name: String,
    pub age: u8,
    pub home: bool,
}

impl Serialize for Cat {
    ghost data_of = { λ v _. structure_of ((codes "name", Some (text (string_bytes v.name)))
        ∷ ((codes "age", Some (byte v.age)) ∷ ((codes "home", Some (truth v.home)) ∷ []))) };

    ghost is_value = { λ v. IsUtf8 (string_bytes v.name) × (v.age < 2 ^ 8) × ⊤ };

    ghost takes_memory = { λ _. false };

    fn serialize<W: Sink, C: SerializerConfig>(
        &self,
        se: &mut Serializer<W, C>,
    ) -> Result<(), Error> {
        let values = Three {
            first: &self.name,
            second: &self.age,
            third: &self.home,
        };
        se.serialize_fields("Cat", &["name", "age", "home"], &values)
    }

    #[tactic(auto, using(rmp_encode::proofs::Fields::structure_no_byte))]
    fn as_u8(&self, _human: bool) -> Option<u8> {
        None
    }
}

/// A number that is an identity, in a type of its own.
#[derive(Drop)]
pub struct Meters(pub u64);

impl Serialize for Meters {
    ghost data_of = { λ v _. Some (wrapped (whole (pos v.0))) };

    ghost is_value = { λ v. v.0 < 2 ^ 64 };

    ghost takes_memory = { λ _. false };

    #[tactic(auto, unfolding(rmp_encode::specs::Data::lower))]
    fn serialize<W: Sink, C: SerializerConfig>(
        &self,
        se: &mut Serializer<W, C>,
    ) -> Result<(), Error> {
        se.serialize_newtype_struct("Meters", &self.0)
    }

    fn as_u8(&self, _human: bool) -> Option<u8> {
        None
    }
}
