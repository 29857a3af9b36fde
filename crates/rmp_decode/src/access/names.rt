//! Reads the names of fields.
ghost use Rattle.std.specs.Prelude.{◌≡◌, ◌<◌, ◌≤◌, Bool, true, length, IfSome};
ghost use Rattle.rmp_decode.specs.Kinds.{raw_head};
ghost use Rattle.rmp_decode.specs.Names.{bytes_of, place_of, place_below};
ghost use Rattle.rmp_decode.specs.NamesAhead.{below, TakesNameAhead, TextIn};
ghost use Rattle.rmp_decode.specs.Payloads.{TakesPayload, a_name};
ghost use Rattle.rmp_decode.specs.State.{is_failed, kept_of};
ghost use Rattle.rmp_decode.specs.declared.deserializer.Kept.TheVariants.{Nothing};

use crate::content::pieces::error_of;
use crate::deserializer::Deserializer;
use crate::deserializer::peek::{Peek, TextHead};
use crate::error::Error;
use rmp_wire::config::SerializerConfig;
use rmp_wire::{ReadSlice, Source};

// The place of the first name that equals a text.
#[inline(always)]
pub(crate) fn place_of(names: &[&str], key: &[u8]) -> Option<usize>
    ensures { result ≡ place_of (bytes_of names.now) key.now }
{
    for i in 0..names.len() {
        if names[i].as_bytes() == key {
            return Some(i);
        }
    }
    None
}

// The place of the first name that equals a text, or the number of names if none does.
#[inline(always)]
fn place_or_count(names: &[&str], key: &[u8]) -> usize
    ensures place { below (length names.now) result ≡ place_of (bytes_of names.now) key.now }
    ensures within { result ≤ length names.now }
{
    match place_of(names, key) {
        Some(place) => place,
        None => names.len(),
    }
}

// Of a text that is buffered whole: the place of its name, or the number of names if it is none of them, and the number
// of its bytes with its head.
#[inline(always)]
fn name_at(front: &[u8], strict: bool, names: &[&str]) -> Option<(usize, usize)>
    ensures inside { IfSome result (λ p. TextIn strict p.1 (λ s. below (length names.now) p.0 ≡ place_of (bytes_of names.now) s) front.now) }
    ensures within { IfSome result (λ p. p.0 ≤ length names.now) }
{
    match TextHead.at(front, strict) {
        Some((len, head)) => {
            let end = head + len as usize;
            if end > front.len() {
                return None;
            }
            Some((place_or_count(names, &front[head..end]), end))
        }
        None => None,
    }
}

// A number as a place, if it is below the number of names.
#[inline(always)]
pub(crate) fn place_below(count: usize, z: i128) -> Option<Option<usize>>
    ensures { result ≡ place_below count z }
{
    if z < 0 {
        return None;
    }
    if z < count as i128 {
        Some(Some(z as usize))
    } else {
        Some(None)
    }
}

// Reads the payload of a text or of bytes as a name: the place of the first that it equals.
#[inline(always)]
pub(crate) fn next_place<'de, R: ReadSlice<'de>>(
    reader: &mut R,
    names: &[&str],
    len: u32,
) -> Result<Option<usize>, Error>
    ensures { (is_text : Bool) → TakesPayload R.Source (a_name (bytes_of names.now) R.lends) (raw_head is_text len) reader.old reader.new result }
{
    match reader.read_slice(len as usize) {
        Ok(piece) => Ok(place_of(names, piece.as_bytes())),
        Err(e) => Err(error_of(e)),
    }
}

impl<R: Source, C: SerializerConfig> Deserializer<R, C> {
    // Consumes a buffered text, and returns the place of its name, or the number of names if it is none of them. With
    // `only_names`, a text that is no name isn't consumed. Returns `None` and consumes nothing otherwise.
    #[inline(always)]
    pub(crate) fn take_name(&mut self, names: &[&str], only_names: bool) -> Option<usize>
        requires marked { is_failed self.old ≡ true }
        requires clean { kept_of self.old ≡ Nothing }
        ensures { TakesNameAhead R.Source names.now only_names self.old self.new result }
    {
        match name_at(self.reader.front(), self.strict, names) {
            Some((place, len)) => {
                if only_names && place >= names.len() {
                    return None;
                }
                if self.reader.skip(len) {
                    Some(place)
                } else {
                    None
                }
            }
            None => None,
        }
    }
}
