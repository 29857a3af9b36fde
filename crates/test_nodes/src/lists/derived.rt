//! How the types of lists.rt are written and read. Written by tools/derive.py.
//!
//! Sum of List: d24e55d8.
ghost use Rattle.rmp_decode.specs.Law.{Lawful};
ghost use Rattle.rmp_decode.specs.Options.{IsOption};
ghost use Rattle.rmp_decode.specs.Read.{IsUnsigned};
ghost use Rattle.rmp_encode.specs.Refusals.{OfLength};
ghost use Rattle.rmp_encode.specs.Trees.{forces_slices};
ghost use Rattle.rmp_recursive.specs.Parts.{Row, Boxed};
ghost use Rattle.rmp_wire.specs.Msg.{nil};
ghost use Rattle.std.specs.Prelude.{None, Some, ⊤};
ghost use Rattle.test_nodes.specs.OwnListLevels.{IsOwnList, own_list_data, own_list_fits};
ghost use Rattle.test_nodes.specs.OwnListRounds.{SameOwnList, own_list_some, own_list_round, own_list_only, own_list_other};

use super::List;
use rmp_decode::{Deserialize, Deserializer, ReadPlaces, Slices};
use rmp_encode::{Serialize, Serializer};
use rmp_round_trip::{NeverNil, RoundTrip};
use rmp_wire::config::SerializerConfig;
use rmp_wire::{ReadSlice, Sink, Source};

fn read_u16<R: Source, C: SerializerConfig>(
    de: &mut Deserializer<R, C>,
) -> Result<u16, rmp_decode::Error>
    ensures law { Lawful R.Source (λ m v. IsUnsigned 65535 m v) de.old de.new result }
{
    de.deserialize_u16()
}

impl Serialize for List {
    ghost data_of = { λ v human. own_list_data v };

    ghost is_value = { λ v. own_list_fits v };

    ghost takes_memory = { λ s. forces_slices s.bytes };

    ghost refuses = { λ _. OfLength ⊤ };

    #[cycle(own_list_writing)]
    fn serialize<W: Sink, C: SerializerConfig>(
        &self,
        se: &mut Serializer<W, C>,
    ) -> Result<(), rmp_encode::Error> {
        let mut fields = se.serialize_struct("List", 4)?;
        fields.serialize_field("times", &self.times)?;
        fields.serialize_field("next", &self.next)?;
        fields.serialize_field("below", &self.below)?;
        fields.serialize_field("places", &self.places)?;
        fields.end()
    }

    #[tactic(auto, using(crate::proofs::OwnListLevels::own_list_no_byte))]
    fn as_u8(&self, _human: bool) -> Option<u8> {
        None
    }
}

// Reads a `List`.
#[cycle(own_list_reading)]
fn read_own_list<R: Source, C: SerializerConfig, P: ReadPlaces<R>>(
    de: &mut Deserializer<R, C>,
) -> Result<List, rmp_decode::Error>
    ensures law { Lawful R.Source IsOwnList de.old de.new result }
{
    let mut fields = match de.deserialize_struct("List", &["times", "next", "below", "places"]) {
        Ok(fields) => fields,
        Err(e) => return Err(e),
    };
    let mut slot0: Option<u16> = None;
    let mut slot1: Option<Option<Box<List>>> = None;
    let mut slot2: Option<Option<Vec<List>>> = None;
    let mut slot3: Option<Vec<Option<Box<List>>>> = None;
    loop {
        match fields.next_field_by::<P>() {
            Ok(Some(0)) => match fields.next_value_with(read_u16::<R, C>) {
                Ok(value) => slot0 = Some(value),
                Err(e) => return Err(e),
            },
            Ok(Some(1)) => match fields.next_value_with(
                |de: &mut Deserializer<R, C>| -> Result<Option<Box<List>>, rmp_decode::Error>
                    ensures law { Lawful R.Source (λ m v. IsOption (Boxed IsOwnList) m v) de.old de.new result }
                { read_own_list_option::<R, C, P>(de) },
            ) {
                Ok(value) => slot1 = Some(value),
                Err(e) => return Err(e),
            },
            Ok(Some(2)) => match fields.next_value_with(
                |de: &mut Deserializer<R, C>| -> Result<Option<Vec<List>>, rmp_decode::Error>
                    ensures law { Lawful R.Source (λ m v. IsOption (λ j q. Row IsOwnList j q.items) m v) de.old de.new result }
                { read_own_list_list_option::<R, C, P>(de) },
            ) {
                Ok(value) => slot2 = Some(value),
                Err(e) => return Err(e),
            },
            Ok(Some(_)) => match fields.next_value_with(
                |de: &mut Deserializer<R, C>| -> Result<Vec<Option<Box<List>>>, rmp_decode::Error>
                    ensures law { Lawful R.Source (λ m v. Row (λ j q. IsOption (Boxed IsOwnList) j q) m v.items) de.old de.new result }
                { read_own_list_option_list::<R, C, P>(de) },
            ) {
                Ok(value) => slot3 = Some(value),
                Err(e) => return Err(e),
            },
            Ok(None) => break,
            Err(e) => return Err(e),
        }
    }
    let value0 = match fields.given_or("times", slot0, Some(1)) {
        Ok(value) => value,
        Err(e) => return Err(e),
    };
    let value1 = match fields.given_or("next", slot1, Some(None)) {
        Ok(value) => value,
        Err(e) => return Err(e),
    };
    let value2 = match fields.given_or("below", slot2, Some(None)) {
        Ok(value) => value,
        Err(e) => return Err(e),
    };
    let value3 = match fields.given_or("places", slot3, None) {
        Ok(value) => value,
        Err(e) => return Err(e),
    };
    match fields.end() {
        Ok(()) => Ok(List {
            times: value0,
            next: value1,
            below: value2,
            places: value3,
        }),
        Err(e) => Err(e),
    }
}

// Reads nil as none, or else a boxed one.
#[cycle(own_list_reading)]
fn read_own_list_option<R: Source, C: SerializerConfig, P: ReadPlaces<R>>(
    de: &mut Deserializer<R, C>,
) -> Result<Option<Box<List>>, rmp_decode::Error>
    ensures law { Lawful R.Source (λ m v. IsOption (Boxed IsOwnList) m v) de.old de.new result }
{
    de.deserialize_option_with(
        |de: &mut Deserializer<R, C>| -> Result<Box<List>, rmp_decode::Error>
            ensures law { Lawful R.Source (λ m v. IsOwnList m v.value) de.old de.new result }
        { read_own_list_box::<R, C, P>(de) },
    )
}

// Reads a `Option<Vec<List>>`.
#[cycle(own_list_reading)]
fn read_own_list_list_option<R: Source, C: SerializerConfig, P: ReadPlaces<R>>(
    de: &mut Deserializer<R, C>,
) -> Result<Option<Vec<List>>, rmp_decode::Error>
    ensures law { Lawful R.Source (λ m v. IsOption (λ j q. Row IsOwnList j q.items) m v) de.old de.new result }
{
    de.deserialize_option_with(
        |de: &mut Deserializer<R, C>| -> Result<Vec<List>, rmp_decode::Error>
            ensures law { Lawful R.Source (λ m v. Row IsOwnList m v.items) de.old de.new result }
        { read_own_list_list::<R, C, P>(de) },
    )
}

// Reads a list of them.
#[cycle(own_list_reading)]
fn read_own_list_list<R: Source, C: SerializerConfig, P: ReadPlaces<R>>(
    de: &mut Deserializer<R, C>,
) -> Result<Vec<List>, rmp_decode::Error>
    ensures law { Lawful R.Source (λ m v. Row IsOwnList m v.items) de.old de.new result }
{
    let mut items = Vec::new(de.alloc());
    let mut seq = de.deserialize_seq()?;
    while let Some(item) = seq.next_element_with(
        |de: &mut Deserializer<R, C>| -> Result<List, rmp_decode::Error>
            ensures law { Lawful R.Source (λ m v. IsOwnList m v) de.old de.new result }
        { read_own_list::<R, C, P>(de) },
    )? {
        items.push(item)?;
    }
    seq.end()?;
    Ok(items)
}

// Reads a `Vec<Option<Box<List>>>`.
#[cycle(own_list_reading)]
fn read_own_list_option_list<R: Source, C: SerializerConfig, P: ReadPlaces<R>>(
    de: &mut Deserializer<R, C>,
) -> Result<Vec<Option<Box<List>>>, rmp_decode::Error>
    ensures law { Lawful R.Source (λ m v. Row (λ j q. IsOption (Boxed IsOwnList) j q) m v.items) de.old de.new result }
{
    let mut items = Vec::new(de.alloc());
    let mut seq = de.deserialize_seq()?;
    while let Some(item) = seq.next_element_with(
        |de: &mut Deserializer<R, C>| -> Result<Option<Box<List>>, rmp_decode::Error>
            ensures law { Lawful R.Source (λ m v. IsOption (Boxed IsOwnList) m v) de.old de.new result }
        { read_own_list_option::<R, C, P>(de) },
    )? {
        items.push(item)?;
    }
    seq.end()?;
    Ok(items)
}

// Reads a boxed one.
#[cycle(own_list_reading)]
fn read_own_list_box<R: Source, C: SerializerConfig, P: ReadPlaces<R>>(
    de: &mut Deserializer<R, C>,
) -> Result<Box<List>, rmp_decode::Error>
    ensures law { Lawful R.Source (λ m v. IsOwnList m v.value) de.old de.new result }
{
    let value = match read_own_list::<R, C, P>(de) {
        Ok(value) => value,
        Err(e) => return Err(e),
    };
    match Box::new(de.alloc(), value) {
        Ok(boxed) => Ok(boxed),
        Err(_) => Err(de.refuse(rmp_decode::Error::OutOfMemory)),
    }
}

impl<'de, R: ReadSlice<'de>> Deserialize<'de, R> for List {
    ghost reads = { λ human lends. IsOwnList };

    ghost absent = { None };

    fn deserialize<C: SerializerConfig>(
        de: &mut Deserializer<R, C>,
    ) -> Result<List, rmp_decode::Error> {
        read_own_list::<R, C, Slices<'de>>(de)
    }

    fn missing() -> Option<List> {
        None
    }
}

impl<'de, R: ReadSlice<'de>> RoundTrip<'de, R> for List {
    ghost has_data = { λ human v. own_list_some v };

    ghost round = { λ lent s v fits. own_list_round s v fits };

    ghost same = { SameOwnList };

    ghost alike = { λ human v w h. h };

    ghost only = { λ s v fits. own_list_only s v fits };
}

impl NeverNil for List {
    ghost never_nil = { λ s v. own_list_other s v };
}
