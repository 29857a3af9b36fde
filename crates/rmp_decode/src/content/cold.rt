//! Slow reads, out of line and on a moved reader.
ghost use Rattle.rmp_decode.specs.Payloads.{Kind, ReadsMessage};

use crate::content::Slices;
use crate::deserializer::Deserializer;
use crate::error::Error;
use core::mem::replace_with;
use rmp_wire::config::SerializerConfig;
use rmp_wire::{ReadSlice, Source};

// A read on the slow path. The bound names no lifetime, since a function that passes a closure can have none that does.
pub(crate) trait Cold<R: Source, V: Drop> {
    // which messages are read
    ghost kind: { Kind V };

    fn slow<C: SerializerConfig>(de: &mut Deserializer<R, C>) -> Result<V, Error>
        ensures { ReadsMessage R.Source kind de.old de.new result };
}

// A slow read on a moved reader, so that the fields of the caller's reader stay in registers.
#[inline(always)]
pub(crate) fn read_cold<R: Source, C: SerializerConfig, V: Drop, P: Cold<R, V>>(
    de: &mut Deserializer<R, C>,
) -> Result<V, Error>
    ensures { ReadsMessage R.Source P.kind de.old de.new result }
{
    replace_with(
        de,
        (),
        |mut de: Deserializer<R, C>, _none: ()|
            ensures { ReadsMessage R.Source P.kind de result.0 result.1 }
        {
            let read = P::slow(&mut de);
            (de, read)
        },
    )
}

impl<'de, R: ReadSlice<'de>> Cold<R, &'de [u8]> for Slices<'de> {
    ghost use Rattle.rmp_decode.specs.Payloads.{some_bytes};

    ghost kind = { some_bytes R.lends };

    #[inline(always)]
    fn slow<C: SerializerConfig>(de: &mut Deserializer<R, C>) -> Result<&'de [u8], Error> {
        de.slow_bytes()
    }
}

impl<'de, R: ReadSlice<'de>> Cold<R, &'de str> for Slices<'de> {
    ghost use Rattle.rmp_decode.specs.Payloads.{a_str};

    ghost kind = { a_str R.lends };

    #[inline(always)]
    fn slow<C: SerializerConfig>(de: &mut Deserializer<R, C>) -> Result<&'de str, Error> {
        de.slow_str()
    }
}

impl<'de, R: ReadSlice<'de>> Cold<R, char> for Slices<'de> {
    ghost use Rattle.rmp_decode.specs.Payloads.{a_char};

    ghost kind = { a_char R.lends };

    #[inline(always)]
    fn slow<C: SerializerConfig>(de: &mut Deserializer<R, C>) -> Result<char, Error> {
        de.slow_char()
    }
}
