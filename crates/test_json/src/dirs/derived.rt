//! How the types of dirs.rt are written and read. Written by tools/derive.py.
//!
//! Sum of Dir: 3b740059.
ghost use Rattle.rmp_decode.specs.Law.{Lawful};
ghost use Rattle.rmp_decode.specs.Maps.{ReadsEntries};
ghost use Rattle.rmp_decode.specs.Read.{IsSigned, IsChar};
ghost use Rattle.rmp_encode.specs.Refusals.{OfLength};
ghost use Rattle.std.specs.Ordering.{nat_cmp};
ghost use Rattle.std.specs.Prelude.{None, Some, false, ⊤, pos, negsuc};
ghost use Rattle.test_json.specs.DirLevels.{IsDir, dir_data, dir_fits};
ghost use Rattle.test_json.specs.DirRounds.{SameDir, dir_some, dir_round, dir_only, dir_other};

use super::{BTreeMap, Dir};
use rmp_decode::{Deserialize, Deserializer, ReadPlaces, Slices};
use rmp_encode::{Serialize, Serializer};
use rmp_round_trip::{NeverNil, RoundTrip};
use rmp_wire::config::SerializerConfig;
use rmp_wire::{ReadSlice, Sink, Source};

fn read_i64<R: Source, C: SerializerConfig>(
    de: &mut Deserializer<R, C>,
) -> Result<i64, rmp_decode::Error>
    ensures law { Lawful R.Source (λ m v. IsSigned (negsuc 9223372036854775807) (pos 9223372036854775807) m v) de.old de.new result }
{
    de.deserialize_i64()
}

// How leaves are read. A function that calls itself may have no bound that names a lifetime, so it has this one, and is called with `Slices`.
trait ReadLeaves<R: Source> {
    fn read_char<C: SerializerConfig>(
        de: &mut Deserializer<R, C>,
    ) -> Result<char, rmp_decode::Error>
        ensures law { Lawful R.Source (λ m v. IsChar m v) de.old de.new result };
}

impl<'de, R: ReadSlice<'de>> ReadLeaves<R> for Slices<'de> {
    fn read_char<C: SerializerConfig>(
        de: &mut Deserializer<R, C>,
    ) -> Result<char, rmp_decode::Error> {
        Deserialize::deserialize(de)
    }
}

impl Serialize for Dir {
    ghost data_of = { λ v human. dir_data v };

    ghost is_value = { λ v. dir_fits v };

    ghost takes_memory = { λ s. false };

    ghost refuses = { λ _. OfLength ⊤ };

    #[cycle(dir_writing)]
    fn serialize<W: Sink, C: SerializerConfig>(
        &self,
        se: &mut Serializer<W, C>,
    ) -> Result<(), rmp_encode::Error> {
        let mut fields = se.serialize_struct("Dir", 2)?;
        fields.serialize_field("size", &self.size)?;
        fields.serialize_field("dirs", &self.dirs)?;
        fields.end()
    }

    #[tactic(auto, using(crate::proofs::DirLevels::dir_no_byte))]
    fn as_u8(&self, _human: bool) -> Option<u8> {
        None
    }
}

// Reads a `Dir`.
#[cycle(dir_reading)]
fn read_dir<R: Source, C: SerializerConfig, P: ReadPlaces<R> + ReadLeaves<R>>(
    de: &mut Deserializer<R, C>,
) -> Result<Dir, rmp_decode::Error>
    ensures law { Lawful R.Source IsDir de.old de.new result }
{
    let mut fields = match de.deserialize_struct("Dir", &["size", "dirs"]) {
        Ok(fields) => fields,
        Err(e) => return Err(e),
    };
    let mut slot0: Option<i64> = None;
    let mut slot1: Option<BTreeMap<char, Dir>> = None;
    loop {
        match fields.next_field_by::<P>() {
            Ok(Some(0)) => match fields.next_value_with(read_i64::<R, C>) {
                Ok(value) => slot0 = Some(value),
                Err(e) => return Err(e),
            },
            Ok(Some(_)) => match fields.next_value_with(
                |de: &mut Deserializer<R, C>| -> Result<BTreeMap<char, Dir>, rmp_decode::Error>
                    ensures law { Lawful R.Source (λ m v. ReadsEntries nat_cmp (λ j q. IsChar j q) IsDir v.entries m) de.old de.new result }
                { read_dir_char_map::<R, C, P>(de) },
            ) {
                Ok(value) => slot1 = Some(value),
                Err(e) => return Err(e),
            },
            Ok(None) => break,
            Err(e) => return Err(e),
        }
    }
    let value0 = match fields.given_or("size", slot0, None) {
        Ok(value) => value,
        Err(e) => return Err(e),
    };
    let value1 = match fields.given_or("dirs", slot1, None) {
        Ok(value) => value,
        Err(e) => return Err(e),
    };
    match fields.end() {
        Ok(()) => Ok(Dir {
            size: value0,
            dirs: value1,
        }),
        Err(e) => Err(e),
    }
}

// Reads them by their keys.
#[cycle(dir_reading)]
fn read_dir_char_map<R: Source, C: SerializerConfig, P: ReadPlaces<R> + ReadLeaves<R>>(
    de: &mut Deserializer<R, C>,
) -> Result<BTreeMap<char, Dir>, rmp_decode::Error>
    ensures law { Lawful R.Source (λ m v. ReadsEntries nat_cmp (λ j q. IsChar j q) IsDir v.entries m) de.old de.new result }
{
    let mut entries = BTreeMap::new(de.alloc());
    let mut pairs = de.deserialize_map()?;
    while let Some(key) = pairs.next_key_with(
        |de: &mut Deserializer<R, C>| -> Result<char, rmp_decode::Error>
            ensures law { Lawful R.Source (λ m v. IsChar m v) de.old de.new result }
        { P::read_char::<C>(de) },
    )? {
        let value = pairs.next_value_with(
            |de: &mut Deserializer<R, C>| -> Result<Dir, rmp_decode::Error>
                ensures law { Lawful R.Source (λ m v. IsDir m v) de.old de.new result }
            { read_dir::<R, C, P>(de) },
        )?;
        drop(entries.insert(key, value)?);
    }
    pairs.end()?;
    Ok(entries)
}

impl<'de, R: ReadSlice<'de>> Deserialize<'de, R> for Dir {
    ghost reads = { λ human lends. IsDir };

    ghost absent = { None };

    fn deserialize<C: SerializerConfig>(
        de: &mut Deserializer<R, C>,
    ) -> Result<Dir, rmp_decode::Error> {
        read_dir::<R, C, Slices<'de>>(de)
    }

    fn missing() -> Option<Dir> {
        None
    }
}

impl<'de, R: ReadSlice<'de>> RoundTrip<'de, R> for Dir {
    ghost has_data = { λ human v. dir_some v };

    ghost round = { λ lent s v fits. dir_round s v fits };

    ghost same = { SameDir };

    ghost alike = { λ human v w h. h };

    ghost only = { λ s v fits. dir_only s v fits };
}

impl NeverNil for Dir {
    ghost never_nil = { λ s v. dir_other s v };
}
