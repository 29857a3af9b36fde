//! Skips messages.
ghost use Rattle.std.specs.Prelude.{◌≡◌, ◌-◌, ◌<◌, true, false, Err, Ok, IfErr, IfSome, MatchResult, OnErr};
ghost use Rattle.rmp_decode.specs.Ahead.{IsLeafHead, TakesPart};
ghost use Rattle.rmp_decode.specs.Exact.{TellsFault};
ghost use Rattle.rmp_decode.specs.Kinds.{content_len};
ghost use Rattle.rmp_decode.specs.Law.{Lawful, ReadsHead};
ghost use Rattle.rmp_decode.specs.LeafTable.{SkipsLeaves};
ghost use Rattle.rmp_decode.specs.Refuse.{UnpassedFor, OpensSome, RefusesFirst, SkipsMessage, SkipsParts};
ghost use Rattle.rmp_decode.specs.Skip.{PassesPayload, any_tree, any_row, parts_count, parts_head};
ghost use Rattle.rmp_decode.specs.State.{faults_of, is_failed, is_strict, kept_of, left, room_of};
ghost use Rattle.rmp_decode.specs.declared.deserializer.Kept.TheVariants.{Nothing};

mod leaves;

use crate::access::parts::inner_room;
use crate::content::{ReadContent, Slices};
use crate::deserializer::Deserializer;
use crate::deserializer::peek::Peek;
use crate::deserializer::skip::leaves::pass_leaves;
use crate::error::Error;
use rmp_wire::config::SerializerConfig;
use rmp_wire::{Head, ReadSlice, Source};

// How many bytes of content follow, if it is the head of a leaf.
#[inline(always)]
pub(crate) fn leaf_in(head: Head) -> Option<u32>
    ensures { IfSome result (IsLeafHead head) }
{
    match head.as_parts() {
        Some(_) => None,
        None => Some(head.content_len()),
    }
}

// How many messages follow the head of a list or a map: of a map two a pair.
#[inline(always)]
fn messages(is_map: bool, n: u32) -> u64
    ensures same { result ≡ parts_count is_map n }
    ensures below { result < 8589934592 }
{
    if is_map {
        2 * u64::from(n)
    } else {
        u64::from(n)
    }
}

// Skips the payload of a leaf, `len` bytes.
#[inline(always)]
fn pass_payload<R: Source, P: ReadContent<R>>(reader: &mut R, len: u32) -> Result<(), Error>
    ensures passes { PassesPayload R.Source P.lends len reader.old reader.new result }
    ensures some { OnErr result (0 < len) }
{
    match len {
        0 => Ok(()),
        _ => P::pass(reader, len as usize),
    }
}

// Skips leaves that are buffered whole, at most `most`. Returns how many of the `most` messages remain.
#[inline(always)]
fn skip_leaves<R: Source, C: SerializerConfig>(de: &mut Deserializer<R, C>, most: u64) -> u64
    requires clean { kept_of de.old ≡ Nothing }
    ensures skipped { SkipsLeaves R.Source most result de.old de.new }
    ensures kept { result ≡ most → de.new ≡ de.old }
{
    let (len, wanted) = pass_leaves(de.reader.front(), de.strict, most);
    if wanted == most {
        return most;
    }
    if de.reader.skip(len) { wanted } else { most }
}

// Skips one such leaf. Returns `false` and consumes nothing where the next message is none.
#[inline(always)]
fn skip_leaf<R: Source, C: SerializerConfig>(de: &mut Deserializer<R, C>) -> bool
    ensures skipped { result ≡ true → Lawful R.Source any_tree de.old de.new (Ok tt) }
    ensures kept { result ≡ false → de.new ≡ de.old }
{
    if !de.begins_ahead() {
        return false;
    }
    skip_leaves(de, 1) == 0
}

// A list (`false`) or a map of up to 15 elements or pairs.
#[derive(Clone, Copy)]
struct ShortParts;

impl Peek for ShortParts {
    type Value = (bool, u32);

    ghost head = { λ _ p. parts_head p.0 p.1 };

    #[inline(always)]
    fn at(self, front: &[u8], _strict: bool) -> Option<((bool, u32), usize)> {
        match front {
            [first, ..] => match first {
                0x80..=0x8f => Some(((true, u32::from(*first - 0x80)), 1)),
                0x90..=0x9f => Some(((false, u32::from(*first - 0x90)), 1)),
                _ => None,
            },
            _ => None,
        }
    }
}

// What a head says that was consumed.
#[derive(Clone, Copy)]
enum Part {
    // A list (`false`) or a map of so many elements or pairs.
    Parts(bool, u32),
    // A leaf with so many bytes of payload.
    Leaf(u32),
}

// Consumes the next head. The reader counts as failed until the message is read. A short list or map is looked for
// first, since buffered leaves were already skipped.
#[inline(always)]
fn next_part<R: Source, C: SerializerConfig>(de: &mut Deserializer<R, C>) -> Result<Part, Error>
    ensures { MatchResult result (λ p. TakesPart R.Source p de.old de.new) (λ e. ReadsHead R.Source de.old de.new (Err e)) }
{
    match de.take(ShortParts) {
        Some(p) => Ok(Part::Parts(p.0, p.1)),
        None => any_part(de),
    }
}

// The slow path, for any head. Out of line, so that a loop over short lists keeps nothing of a head.
#[inline(never)]
fn any_part<R: Source, C: SerializerConfig>(de: &mut Deserializer<R, C>) -> Result<Part, Error>
    ensures { MatchResult result (λ p. TakesPart R.Source p de.old de.new) (λ e. ReadsHead R.Source de.old de.new (Err e)) }
{
    match de.any_head() {
        Ok(head) => match head.as_parts() {
            Some((is_map, n)) => Ok(Part::Parts(is_map, n)),
            None => Ok(Part::Leaf(head.content_len())),
        },
        Err(e) => Err(e),
    }
}

// Skips one message.
fn skip<R: Source, C: SerializerConfig, P: ReadContent<R>>(
    de: &mut Deserializer<R, C>,
) -> Result<(), Error>
    ensures { SkipsMessage R.Source P.lends de.old de.new result }
{
    let part = match next_part(de) {
        Ok(part) => part,
        Err(e) => return Err(e),
    };
    match part {
        Part::Parts(is_map, n) => skip_parts::<R, C, P>(de, messages(is_map, n)),
        Part::Leaf(len) => match pass_payload::<R, P>(&mut de.reader, len) {
            Ok(()) => {
                de.failed = false;
                Ok(())
            }
            Err(e) => Err(e),
        },
    }
}

// Skips the parts of a list or a map whose head was consumed, with all that is nested in them.
fn skip_parts<R: Source, C: SerializerConfig, P: ReadContent<R>>(
    de: &mut Deserializer<R, C>,
    count: u64,
) -> Result<(), Error>
    requires failed { is_failed de.old ≡ true }
    requires clean { kept_of de.old ≡ Nothing }
    ensures { SkipsParts R.Source P.lends count de.old de.new result }
{
    if de.room <= 1 {
        return Err(Error::DepthLimitExceeded);
    }
    // The depth that is left for the messages of the innermost list or map.
    let mut room = inner_room(de.room, false);
    let mut wanted = count;
    // How many messages remain in each list or map around it, the outermost first.
    let mut outer: Vec<u64> = Vec::new(de.alloc);
    'parts: loop {
        wanted = skip_leaves(de, wanted);
        if wanted == 0 {
            match outer.pop() {
                Some(n) => {
                    wanted = n;
                    room += 1;
                }
                None => {
                    de.failed = false;
                    return Ok(());
                }
            }
        } else {
            wanted -= 1;
            de.failed = false;
            let part = match next_part(de) {
                Ok(part) => part,
                Err(e) => return Err(e),
            };
            match part {
                Part::Parts(is_map, n) => {
                    if room <= 1 {
                        return Err(Error::DepthLimitExceeded);
                    }
                    let inner = messages(is_map, n);
                    if inner > 0 {
                        match outer.push(wanted) {
                            Ok(()) => {}
                            Err(_) => return Err(Error::OutOfMemory),
                        }
                        room -= 1;
                        wanted = inner;
                    }
                }
                Part::Leaf(len) => match pass_payload::<R, P>(&mut de.reader, len) {
                    Ok(()) => {}
                    Err(e) => return Err(e),
                },
            }
        }
    }
}

impl<R: Source, C: SerializerConfig> Deserializer<R, C> {
    /// Skips one message of any kind. Its texts needn't be UTF-8, and its payloads aren't copied if the source lends
    /// its bytes.
    ///
    /// # Errors
    /// That of the first thing that is wrong: `InvalidMarkerRead` if the input ends before a message, `InvalidDataRead`
    /// if it ends inside a head or a payload, `TypeMismatch` at the byte c1, and `DepthLimitExceeded` at a list or a
    /// map that nests too deep. `OutOfMemory` if a copy of a payload, or a count for a list or a map inside of another,
    /// couldn't be allocated.
    pub fn deserialize_ignored_any<'de>(&mut self) -> Result<(), Error>
    where
        R: ReadSlice<'de>,
        ensures law { Lawful R.Source any_tree self.old self.new result }
        // An error names the first thing that is wrong.
        ensures exact { IfErr result (RefusesFirst R.Source (UnpassedFor R.lends (room_of self.old)) any_row self.old self.new) }
        // Where the source had a fault, it says so, or that memory ran out.
        ensures fault { IfErr result (TellsFault (faults_of R.Source self.old) (faults_of R.Source self.new)) }
        // If the source lends its bytes, only a list or a map that isn't empty allocates.
        ensures memory { R.lends ≡ true → IfErr result (λ e. e ≡ Error.OutOfMemory → IfSome (left R.Source self.old) (OpensSome (is_strict self.old))) }
    {
        if skip_leaf(self) {
            return Ok(());
        }
        skip::<R, C, Slices<'de>>(self)
    }
}
