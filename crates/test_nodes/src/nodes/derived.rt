//! How the types of nodes.rt are written and read. Written by tools/derive.py.
//!
//! Sum of Rose: 96b4d25e.
ghost use Rattle.rmp_decode.specs.Law.{Lawful};
ghost use Rattle.rmp_encode.specs.Refusals.{OfLength};
ghost use Rattle.rmp_encode.specs.Trees.{forces_slices};
ghost use Rattle.rmp_recursive.specs.Parts.{Row};
ghost use Rattle.std.specs.Prelude.{None, Some, ⊤};
ghost use Rattle.test_nodes.specs.RoseLevels.{IsRose, rose_data, rose_fits};
ghost use Rattle.test_nodes.specs.RoseRounds.{SameRose, rose_some, rose_round, rose_only, rose_other};

use super::Rose;
use rmp_decode::{Deserialize, Deserializer, ReadPlaces, Slices};
use rmp_encode::{Serialize, Serializer};
use rmp_round_trip::{NeverNil, RoundTrip};
use rmp_wire::config::SerializerConfig;
use rmp_wire::{ReadSlice, Sink, Source};

impl Serialize for Rose {
    ghost data_of = { λ v human. rose_data v };

    ghost is_value = { λ v. rose_fits v };

    ghost takes_memory = { λ s. forces_slices s.bytes };

    ghost refuses = { λ _. OfLength ⊤ };

    #[cycle(rose_writing)]
    fn serialize<W: Sink, C: SerializerConfig>(
        &self,
        se: &mut Serializer<W, C>,
    ) -> Result<(), rmp_encode::Error> {
        let mut fields = se.serialize_struct("Rose", 1)?;
        fields.serialize_field("kids", &self.kids)?;
        fields.end()
    }

    #[tactic(auto, using(crate::proofs::RoseLevels::rose_no_byte))]
    fn as_u8(&self, _human: bool) -> Option<u8> {
        None
    }
}

// Reads a `Rose`.
#[cycle(rose_reading)]
fn read_rose<R: Source, C: SerializerConfig, P: ReadPlaces<R>>(
    de: &mut Deserializer<R, C>,
) -> Result<Rose, rmp_decode::Error>
    ensures law { Lawful R.Source IsRose de.old de.new result }
{
    let mut fields = match de.deserialize_struct("Rose", &["kids"]) {
        Ok(fields) => fields,
        Err(e) => return Err(e),
    };
    let mut slot0: Option<Vec<Rose>> = None;
    loop {
        match fields.next_field_by::<P>() {
            Ok(Some(_)) => match fields.next_value_with(
                |de: &mut Deserializer<R, C>| -> Result<Vec<Rose>, rmp_decode::Error>
                    ensures law { Lawful R.Source (λ m v. Row IsRose m v.items) de.old de.new result }
                { read_rose_list::<R, C, P>(de) },
            ) {
                Ok(value) => slot0 = Some(value),
                Err(e) => return Err(e),
            },
            Ok(None) => break,
            Err(e) => return Err(e),
        }
    }
    let value0 = match fields.given_or("kids", slot0, None) {
        Ok(value) => value,
        Err(e) => return Err(e),
    };
    match fields.end() {
        Ok(()) => Ok(Rose { kids: value0 }),
        Err(e) => Err(e),
    }
}

// Reads a list of them.
#[cycle(rose_reading)]
fn read_rose_list<R: Source, C: SerializerConfig, P: ReadPlaces<R>>(
    de: &mut Deserializer<R, C>,
) -> Result<Vec<Rose>, rmp_decode::Error>
    ensures law { Lawful R.Source (λ m v. Row IsRose m v.items) de.old de.new result }
{
    let mut items = Vec::new(de.alloc());
    let mut seq = de.deserialize_seq()?;
    while let Some(item) = seq.next_element_with(
        |de: &mut Deserializer<R, C>| -> Result<Rose, rmp_decode::Error>
            ensures law { Lawful R.Source (λ m v. IsRose m v) de.old de.new result }
        { read_rose::<R, C, P>(de) },
    )? {
        items.push(item)?;
    }
    seq.end()?;
    Ok(items)
}

impl<'de, R: ReadSlice<'de>> Deserialize<'de, R> for Rose {
    ghost reads = { λ human lends. IsRose };

    ghost absent = { None };

    fn deserialize<C: SerializerConfig>(
        de: &mut Deserializer<R, C>,
    ) -> Result<Rose, rmp_decode::Error> {
        read_rose::<R, C, Slices<'de>>(de)
    }

    fn missing() -> Option<Rose> {
        None
    }
}

impl<'de, R: ReadSlice<'de>> RoundTrip<'de, R> for Rose {
    ghost has_data = { λ human v. rose_some v };

    ghost round = { λ lent s v fits. rose_round s v fits };

    ghost same = { SameRose };

    ghost alike = { λ human v w h. h };

    ghost only = { λ s v fits. rose_only s v fits };
}

impl NeverNil for Rose {
    ghost never_nil = { λ s v. rose_other s v };
}
