//! How the types of json.rt are written and read. Written by tools/derive.py.
//!
//! Sum of Json: 594e942c.
ghost use Rattle.rmp_decode.specs.Law.{Lawful};
ghost use Rattle.rmp_decode.specs.Maps.{ReadsEntries};
ghost use Rattle.rmp_decode.specs.Read.{IsSigned, IsRaw};
ghost use Rattle.rmp_encode.specs.Refusals.{OfLength};
ghost use Rattle.rmp_encode.specs.Trees.{forces_slices};
ghost use Rattle.rmp_recursive.specs.Parts.{Row};
ghost use Rattle.rmp_wire.specs.Msg.{truth};
ghost use Rattle.std.specs.Prelude.{◌≡◌, None, Some, ⊤, string_bytes, pos, negsuc};
ghost use Rattle.std.specs.String.{string_cmp};
ghost use Rattle.test_json.specs.JsonLevels.{IsJson, json_data, json_fits};
ghost use Rattle.test_json.specs.JsonRounds.{SameJson, json_some, json_round, json_only, json_other};

use super::{BTreeMap, Json};
use rmp_decode::{Deserialize, Deserializer, ReadContent, Slices};
use rmp_encode::{Serialize, Serializer};
use rmp_round_trip::{NeverNil, RoundTrip};
use rmp_wire::config::SerializerConfig;
use rmp_wire::{ReadSlice, Sink, Source};

fn read_bool<R: Source, C: SerializerConfig>(
    de: &mut Deserializer<R, C>,
) -> Result<bool, rmp_decode::Error>
    ensures law { Lawful R.Source (λ m v. m ≡ truth v) de.old de.new result }
{
    de.deserialize_bool()
}

fn read_i64<R: Source, C: SerializerConfig>(
    de: &mut Deserializer<R, C>,
) -> Result<i64, rmp_decode::Error>
    ensures law { Lawful R.Source (λ m v. IsSigned (negsuc 9223372036854775807) (pos 9223372036854775807) m v) de.old de.new result }
{
    de.deserialize_i64()
}

// How leaves are read. A function that calls itself may have no bound that names a lifetime, so it has this one, and is called with `Slices`.
trait ReadLeaves<R: Source> {
    fn read_string<C: SerializerConfig>(
        de: &mut Deserializer<R, C>,
    ) -> Result<String, rmp_decode::Error>
        ensures law { Lawful R.Source (λ m v. IsRaw m (string_bytes v)) de.old de.new result };
}

impl<'de, R: ReadSlice<'de>> ReadLeaves<R> for Slices<'de> {
    fn read_string<C: SerializerConfig>(
        de: &mut Deserializer<R, C>,
    ) -> Result<String, rmp_decode::Error> {
        Deserialize::deserialize(de)
    }
}

impl Serialize for Json {
    ghost data_of = { λ v human. json_data v };

    ghost is_value = { λ v. json_fits v };

    ghost takes_memory = { λ s. forces_slices s.bytes };

    ghost refuses = { λ _. OfLength ⊤ };

    #[tactic(auto, unfolding(rmp_encode::specs::Data::lower))]
    #[cycle(json_writing)]
    fn serialize<W: Sink, C: SerializerConfig>(
        &self,
        se: &mut Serializer<W, C>,
    ) -> Result<(), rmp_encode::Error> {
        match self {
            Json::Null => se.serialize_unit_variant("Json", 0, "Null"),
            Json::Bool(value) => se.serialize_newtype_variant("Json", 1, "Bool", value),
            Json::Number(value) => se.serialize_newtype_variant("Json", 2, "Number", value),
            Json::Text(value) => se.serialize_newtype_variant("Json", 3, "Text", value),
            Json::List(value) => se.serialize_newtype_variant("Json", 4, "List", value),
            Json::Object(value) => se.serialize_newtype_variant("Json", 5, "Object", value),
        }
    }

    #[tactic(auto, using(crate::proofs::JsonLevels::json_no_byte))]
    fn as_u8(&self, _human: bool) -> Option<u8> {
        match self {
            Json::Null => None,
            Json::Bool(_) => None,
            Json::Number(_) => None,
            Json::Text(_) => None,
            Json::List(_) => None,
            Json::Object(_) => None,
        }
    }
}

// Reads a `Json`.
#[cycle(json_reading)]
fn read_json<R: Source, C: SerializerConfig, P: ReadContent<R> + ReadLeaves<R>>(
    de: &mut Deserializer<R, C>,
) -> Result<Json, rmp_decode::Error>
    ensures law { Lawful R.Source IsJson de.old de.new result }
{
    match de.deserialize_enum_by::<P>(&["Null", "Bool", "Number", "Text", "List", "Object"]) {
        Ok((0, variant)) => match variant.unit_variant() {
            Ok(()) => Ok(Json::Null),
            Err(e) => Err(e),
        },
        Ok((1, variant)) => match variant.newtype_variant_with(read_bool::<R, C>) {
            Ok(value) => Ok(Json::Bool(value)),
            Err(e) => Err(e),
        },
        Ok((2, variant)) => match variant.newtype_variant_with(read_i64::<R, C>) {
            Ok(value) => Ok(Json::Number(value)),
            Err(e) => Err(e),
        },
        Ok((3, variant)) => match variant.newtype_variant_with(
            |de: &mut Deserializer<R, C>| -> Result<String, rmp_decode::Error>
                ensures law { Lawful R.Source (λ m v. IsRaw m (string_bytes v)) de.old de.new result }
            { P::read_string::<C>(de) },
        ) {
            Ok(value) => Ok(Json::Text(value)),
            Err(e) => Err(e),
        },
        Ok((4, variant)) => match variant.newtype_variant_with(
            |de: &mut Deserializer<R, C>| -> Result<Vec<Json>, rmp_decode::Error>
                ensures law { Lawful R.Source (λ m v. Row IsJson m v.items) de.old de.new result }
            { read_json_list::<R, C, P>(de) },
        ) {
            Ok(value) => Ok(Json::List(value)),
            Err(e) => Err(e),
        },
        Ok((_, variant)) => match variant.newtype_variant_with(
            |de: &mut Deserializer<R, C>| -> Result<BTreeMap<String, Json>, rmp_decode::Error>
                ensures law { Lawful R.Source (λ m v. ReadsEntries string_cmp (λ j q. IsRaw j (string_bytes q)) IsJson v.entries m) de.old de.new result }
            { read_json_string_map::<R, C, P>(de) },
        ) {
            Ok(value) => Ok(Json::Object(value)),
            Err(e) => Err(e),
        },
        Err(e) => Err(e),
    }
}

// Reads a list of them.
#[cycle(json_reading)]
fn read_json_list<R: Source, C: SerializerConfig, P: ReadContent<R> + ReadLeaves<R>>(
    de: &mut Deserializer<R, C>,
) -> Result<Vec<Json>, rmp_decode::Error>
    ensures law { Lawful R.Source (λ m v. Row IsJson m v.items) de.old de.new result }
{
    let mut items = Vec::new(de.alloc());
    let mut seq = de.deserialize_seq()?;
    while let Some(item) = seq.next_element_with(
        |de: &mut Deserializer<R, C>| -> Result<Json, rmp_decode::Error>
            ensures law { Lawful R.Source (λ m v. IsJson m v) de.old de.new result }
        { read_json::<R, C, P>(de) },
    )? {
        items.push(item)?;
    }
    seq.end()?;
    Ok(items)
}

// Reads them by their keys.
#[cycle(json_reading)]
fn read_json_string_map<R: Source, C: SerializerConfig, P: ReadContent<R> + ReadLeaves<R>>(
    de: &mut Deserializer<R, C>,
) -> Result<BTreeMap<String, Json>, rmp_decode::Error>
    ensures law { Lawful R.Source (λ m v. ReadsEntries string_cmp (λ j q. IsRaw j (string_bytes q)) IsJson v.entries m) de.old de.new result }
{
    let mut entries = BTreeMap::new(de.alloc());
    let mut pairs = de.deserialize_map()?;
    while let Some(key) = pairs.next_key_with(
        |de: &mut Deserializer<R, C>| -> Result<String, rmp_decode::Error>
            ensures law { Lawful R.Source (λ m v. IsRaw m (string_bytes v)) de.old de.new result }
        { P::read_string::<C>(de) },
    )? {
        let value = pairs.next_value_with(
            |de: &mut Deserializer<R, C>| -> Result<Json, rmp_decode::Error>
                ensures law { Lawful R.Source (λ m v. IsJson m v) de.old de.new result }
            { read_json::<R, C, P>(de) },
        )?;
        drop(entries.insert(key, value)?);
    }
    pairs.end()?;
    Ok(entries)
}

impl<'de, R: ReadSlice<'de>> Deserialize<'de, R> for Json {
    ghost reads = { λ human lends. IsJson };

    ghost absent = { None };

    fn deserialize<C: SerializerConfig>(
        de: &mut Deserializer<R, C>,
    ) -> Result<Json, rmp_decode::Error> {
        read_json::<R, C, Slices<'de>>(de)
    }

    fn missing() -> Option<Json> {
        None
    }
}

impl<'de, R: ReadSlice<'de>> RoundTrip<'de, R> for Json {
    ghost has_data = { λ human v. json_some v };

    ghost round = { λ lent s v fits. json_round s v fits };

    ghost same = { SameJson };

    ghost alike = { λ human v w h. h };

    ghost only = { λ s v fits. json_only s v fits };
}

impl NeverNil for Json {
    ghost never_nil = { λ s v. json_other s v };
}
