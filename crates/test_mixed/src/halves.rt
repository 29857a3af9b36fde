//! Types of which one half is written by hand, or both, and what is written is read back all the same.
mod derived;

ghost use Rattle.std.specs.Prelude.{◌∷◌, ◌<◌, ◌^◌, [], None, Some, codes, false, pos, IsUtf8, string_bytes};
ghost use Rattle.rmp_decode.specs.FieldRefusing.{RefusesFields};
ghost use Rattle.rmp_decode.specs.Fields.{Absent, Field, NoField, OfFields};
ghost use Rattle.rmp_decode.specs.Read.{IsRaw, IsUnsigned};
ghost use Rattle.rmp_encode.specs.Data.{text, whole};
ghost use Rattle.rmp_encode.specs.Trees.{structure_of};
ghost use Rattle.rmp_ends.specs.FieldEnds.{fields_inside};
ghost use Rattle.rmp_ends.specs.LeafEnds.{number_inside, string_inside};

use rmp_decode::{Deserialize, Deserializer, ReadFields};
use rmp_encode::{Both, Serialize, Serializer};
use rmp_ends::EndsInside;
use rmp_wire::config::SerializerConfig;
use rmp_wire::{ReadSlice, Sink};

/// A buoy, which is written by hand.
// derive: round_trip
#[derive(Drop)]
pub struct Buoy {
    pub name: String,
    pub depth: u16,
}

impl Serialize for Buoy {
    ghost data_of = { λ v _. structure_of ((codes "name", Some (text (string_bytes v.name))) ∷ ((codes "depth", Some (whole (pos v.depth))) ∷ [])) };

    ghost is_value = { λ v. IsUtf8 (string_bytes v.name) × (v.depth < 2 ^ 16) };

    ghost takes_memory = { λ _. false };

    fn serialize<W: Sink, C: SerializerConfig>(
        &self,
        se: &mut Serializer<W, C>,
    ) -> Result<(), rmp_encode::Error> {
        let values = Both {
            first: &self.name,
            second: &self.depth,
        };
        se.serialize_fields("Buoy", &["name", "depth"], &values)
    }

    #[tactic(auto, using(rmp_encode::proofs::Fields::structure_no_byte))]
    fn as_u8(&self, _human: bool) -> Option<u8> {
        None
    }
}

/// A light, which is read by hand.
// derive: round_trip
#[derive(Drop)]
pub struct Light {
    pub name: String,
    pub height: u16,
}

impl<'de, R: ReadSlice<'de>> Deserialize<'de, R> for Light {
    ghost reads = { λ human lends m v. OfFields (codes "name" ∷ (codes "height" ∷ []))
        (Field (λ k. IsRaw k (string_bytes v.name)) (Absent None v.name)
        (Field (λ k. IsUnsigned 65535 k v.height) (Absent None v.height) NoField)) m };

    ghost absent = { None };

    ghost refuses = { RefusesFields (codes "name" ∷ (codes "height" ∷ [])) ⟦<(String, (u16, ())) as ReadFields<'de, R>>⟧.needed
        ⟦<(String, (u16, ())) as ReadFields<'de, R>>⟧.parts };

    fn deserialize<C: SerializerConfig>(
        de: &mut Deserializer<R, C>,
    ) -> Result<Light, rmp_decode::Error> {
        let read: Result<(String, (u16, ())), rmp_decode::Error> = de.deserialize_fields(&[
            "name", "height",
        ]);
        match read {
            Ok(fields) => {
                let (name, (height, ())) = fields;
                Ok(Light { name, height })
            }
            Err(e) => Err(e),
        }
    }

    fn missing() -> Option<Light> {
        None
    }
}

impl<'de, R: ReadSlice<'de>> EndsInside<'de, R> for Light {
    ghost ends_inside = { fields_inside _ _ _ (string_inside, (number_inside, tt)) };
}

/// A coast, which holds both.
#[derive(Drop)]
pub struct Coast {
    pub buoys: Vec<Buoy>,
    pub light: Option<Light>,
}
