//! Checks whether an input is canonical, and finds where it isn't.
ghost use Rattle.std.specs.Prelude.{◌≡◌, ◌≢◌, ◌↔◌, ◌<◌, ℕ, Ok, IfErr};
ghost use Rattle.rmp_decode.specs.Kinds.{content_len};
ghost use Rattle.rmp_serde.specs.Places.{IsWhole, IsFault, Stops, NextNode, parts_after};

mod short;

use crate::check::short::{LONGEST, short_nodes};
use rmp_decode::Error;
use rmp_wire::{Head, IoFault, Source, is_canonical, next_head};
use std::alloc::Global;
use std::io::ErrorKind;

/// What a check of an input finds.
#[derive(Clone, Copy, Debug, PartialEq)]
pub enum Canon {
    /// The input begins with the canonical encoding of a message, of this length in bytes.
    Whole(usize),
    /// At this offset is the first head that isn't the canonical one of its kind and number.
    Fault(usize),
}

// How many messages follow a head as its parts.
fn parts_in(head: &Head) -> u64
    ensures { result ≡ parts_after head.now }
{
    match head {
        Head::Array(len) => u64::from(*len),
        Head::Map(len) => 2 * u64::from(*len),
        _ => 0,
    }
}

// Consumes a canonical head and its content, and returns how many messages follow it as its parts. Returns
// `None` and consumes nothing where a complete head isn't canonical.
fn next_node(left: &mut &[u8]) -> Result<Option<u64>, Error>
    ensures { NextNode left.old.now left.new.now result }
{
    let mut rest: &[u8] = *left;
    let (marker, head) = next_head(&mut rest)?;
    if !is_canonical(marker, &head) {
        return Ok(None);
    }
    if !rest.skip(head.content_len() as usize) {
        return Err(Error::InvalidDataRead(IoFault::from(ErrorKind::UnexpectedEof)));
    }
    *left = rest;
    Ok(Some(parts_in(&head)))
}

/// Checks whether the input begins with the canonical encoding of a message.
///
/// It returns the length of that encoding, or the offset of the first head that isn't canonical, whatever
/// follows that head. Of `92 05 a1 61 c0` it is `Whole(4)`, of `92 05 d9 01 61` it is `Fault(2)`.
///
/// Lists and maps may nest to any depth, and texts needn't be UTF-8. What follows the message isn't checked.
/// Nothing is allocated, from `_alloc` or elsewhere.
///
/// # Errors
/// Unless a head that isn't canonical comes first: `InvalidMarkerRead` where the input ends before a message,
/// `InvalidDataRead` where it ends inside of a head or its content, and `TypeMismatch` at the byte c1.
///
/// # Examples
/// ```
/// use rmp_serde::{Canon, check_canonical};
///
/// assert!(rt; matches!(check_canonical(alloc, &[0x92, 0x05, 0xa1, 0x61, 0xc0])?, Canon::Whole(4)));
/// // the head of the text has two bytes, and one would suffice
/// assert!(rt; matches!(check_canonical(alloc, &[0x92, 0x05, 0xd9, 0x01, 0x61])?, Canon::Fault(2)));
/// ```
pub fn check_canonical(_alloc: Global, input: &[u8]) -> Result<Canon, Error>
    // `Whole` exactly where a beginning of the input is the canonical spelling of a message,
    ensures whole { (n : ℕ) → (result ≡ Ok (Canon.Whole n)) ↔ IsWhole input.now n }
    // `Fault` exactly where a head that isn't canonical is in the place of a message of a canonical encoding,
    ensures fault { (p : ℕ) → (result ≡ Ok (Canon.Fault p)) ↔ IsFault input.now p }
    // and an error says what is wrong in such a place.
    ensures stops { IfErr result (Stops input.now) }
    ensures memory { IfErr result (λ e. e ≢ Error.OutOfMemory) }
{
    let len = input.len();
    let mut left: &[u8] = input;
    // How many messages remain in all open lists and maps. There are never more than the input has bytes, or
    // the input ends first. So the number may stop growing where it would overflow.
    let mut wanted: u64 = 1;
    while wanted > 0 {
        let most = wanted.min(left.len() as u64 / LONGEST);
        let (taken, passed, parts) = short_nodes(left, most);
        if passed > 0 {
            left = &left[taken..];
            wanted = (wanted - passed).saturating_add(parts);
        } else {
            match next_node(&mut left)? {
                Some(parts) => wanted = (wanted - 1).saturating_add(parts),
                None => return Ok(Canon::Fault(len - left.len())),
            }
        }
    }
    Ok(Canon::Whole(len - left.len()))
}
