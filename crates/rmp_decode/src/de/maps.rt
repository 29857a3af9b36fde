//! Maps, from maps.
ghost use Rattle.std.specs.Prelude.{None, true};
ghost use Rattle.rmp_decode.specs.MapRefusing.{RefusesPairs};
ghost use Rattle.rmp_decode.specs.Maps.{ReadsEntries};
ghost use Rattle.rmp_decode.specs.Refusing.{ReadsAs};

use crate::de::Deserialize;
use crate::deserializer::Deserializer;
use crate::deserializer::peek::MapOf;
use crate::error::Error;
use rmp_wire::ReadSlice;
use rmp_wire::config::SerializerConfig;
use std::collections::BTreeMap;

// Reads a map pair by pair: by a call, so that the read of an empty map stays small.
#[inline(never)]
fn read_map<
    'de,
    R: ReadSlice<'de>,
    C: SerializerConfig,
    K: Deserialize<'de, R> + Ord,
    V: Deserialize<'de, R>,
>(de: &mut Deserializer<R, C>) -> Result<BTreeMap<K, V>, Error>
    ensures { ReadsAs R.Source C.human R.lends true (λ m v. ReadsEntries K.cmp (K.reads C.human R.lends) (V.reads C.human R.lends) v.entries m)
        (RefusesPairs K.reads V.reads K.refuses V.refuses) de.old de.new result }
{
    let mut entries = BTreeMap::new(de.alloc());
    let mut map = de.deserialize_map()?;
    while let Some(key) = map.next_key()? {
        let value = map.next_value()?;
        entries.insert(key, value)?;
    }
    map.end()?;
    Ok(entries)
}

impl<'de, R: ReadSlice<'de>, K: Deserialize<'de, R> + Ord, V: Deserialize<'de, R>> Deserialize<
    'de,
    R,
> for BTreeMap<K, V> {
    ghost reads = { λ human lends m v. ReadsEntries K.cmp (K.reads human lends) (V.reads human lends) v.entries m };

    ghost absent = { None };

    ghost refuses = { RefusesPairs K.reads V.reads K.refuses V.refuses };

    fn deserialize<C: SerializerConfig>(
        de: &mut Deserializer<R, C>,
    ) -> Result<BTreeMap<K, V>, Error> {
        if let Some(()) = de.take_nested(MapOf { count: 0 }) {
            de.failed = false;
            return Ok(BTreeMap::new(de.alloc()));
        }
        read_map(de)
    }

    fn missing() -> Option<BTreeMap<K, V>> {
        None
    }
}
