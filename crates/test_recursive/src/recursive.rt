//! A type that contains itself, by hand: it is written as the list of its parts, which the tool derives for no type.
ghost use Rattle.rmp_decode.specs.Law.{Lawful};
ghost use Rattle.std.specs.Prelude.{None, ⊤};
ghost use Rattle.test_recursive.specs.NestedLevels.{IsNested, nested_data};

use rmp_decode::{Deserialize, Deserializer};
use rmp_encode::{Serialize, Serializer};
use rmp_wire::config::SerializerConfig;
use rmp_wire::{ReadSlice, Sink, Source};

/// Lists in one another.
#[derive(Drop)]
pub struct Nested {
    pub sub: Vec<Nested>,
}

impl Serialize for Nested {
    ghost data_of = { λ v human. nested_data v };

    ghost is_value = { λ v. ⊤ };

    #[cycle(nested_writing)]
    fn serialize<W: Sink, C: SerializerConfig>(
        &self,
        se: &mut Serializer<W, C>,
    ) -> Result<(), rmp_encode::Error> {
        self.sub.serialize(se)
    }

    #[tactic(auto, using(crate::proofs::NestedLevels::nested_no_byte))]
    fn as_u8(&self, _human: bool) -> Option<u8> {
        None
    }
}

// Reads lists in one another.
fn read_nested<R: Source, C: SerializerConfig>(
    de: &mut Deserializer<R, C>,
) -> Result<Nested, rmp_decode::Error>
    ensures law { Lawful R.Source IsNested de.old de.new result }
{
    let mut sub = Vec::new(de.alloc());
    let mut seq = de.deserialize_seq()?;
    while let Some(part) = seq.next_element_with(read_nested::<R, C>)? {
        sub.push(part)?;
    }
    seq.end()?;
    Ok(Nested { sub })
}

impl<'de, R: ReadSlice<'de>> Deserialize<'de, R> for Nested {
    ghost reads = { λ human lends. IsNested };

    ghost absent = { None };

    fn deserialize<C: SerializerConfig>(
        de: &mut Deserializer<R, C>,
    ) -> Result<Nested, rmp_decode::Error> {
        read_nested(de)
    }

    fn missing() -> Option<Nested> {
        None
    }
}
