//! Which head is the canonical one of its kind and number.
#![tactic(auto, unfolding(crate::specs::Heads::canon_head, crate::specs::Heads::fits_head, crate::specs::Taking::byte_of))]

ghost use Rattle.std.specs.Prelude.{◌≡◌, ◌↔◌, ◌<◌, true, false, pos, ℤ, IfSome, IfNone};
ghost use Rattle.rmp_wire.specs.Canonical.{Opens};
ghost use Rattle.rmp_wire.specs.Heads.{canon_head, fits_head};
ghost use Rattle.rmp_wire.specs.Taking.{byte_of};
ghost use Rattle.rmp_wire.specs.declared.head.Head.TheVariants.{Whole, Text, Bin, Array, Map, Ext};

use crate::head::Head;
use crate::marker::Marker;

// The first byte of the canonical head of a number.
fn whole_byte(z: i128) -> u8
    ensures { fits_head (Whole z) → Opens result (canon_head (Whole z)) }
{
    if z >= 1 << 32 {
        0xcf
    } else if z >= 1 << 16 {
        0xce
    } else if z >= 1 << 8 {
        0xcd
    } else if z >= 128 {
        0xcc
    } else if z >= -32 {
        (z as i8).cast_unsigned()
    } else if z >= i128::from(i8::MIN) {
        0xd0
    } else if z >= i128::from(i16::MIN) {
        0xd1
    } else if z >= i128::from(i32::MIN) {
        0xd2
    } else {
        0xd3
    }
}

// The first byte of the canonical head of a text.
fn text_byte(len: u32) -> u8
    ensures { Opens result (canon_head (Text len)) }
{
    if len < 32 {
        0xa0 + len as u8
    } else if len < 1 << 8 {
        0xd9
    } else if len < 1 << 16 {
        0xda
    } else {
        0xdb
    }
}

// The first byte of the canonical head of bytes.
fn bin_byte(len: u32) -> u8
    ensures { Opens result (canon_head (Bin len)) }
{
    if len < 1 << 8 {
        0xc4
    } else if len < 1 << 16 {
        0xc5
    } else {
        0xc6
    }
}

// The first byte of the canonical head of a list.
fn array_byte(len: u32) -> u8
    ensures { Opens result (canon_head (Array len)) }
{
    if len < 16 {
        0x90 + len as u8
    } else if len < 1 << 16 {
        0xdc
    } else {
        0xdd
    }
}

// The first byte of the canonical head of a map.
fn map_byte(len: u32) -> u8
    ensures { Opens result (canon_head (Map len)) }
{
    if len < 16 {
        0x80 + len as u8
    } else if len < 1 << 16 {
        0xde
    } else {
        0xdf
    }
}

// The first byte of the canonical head of an extension.
fn ext_byte(len: u32, tag: i8) -> u8
    ensures { Opens result (canon_head (Ext len tag)) }
{
    match len {
        1 => 0xd4,
        2 => 0xd5,
        4 => 0xd6,
        8 => 0xd7,
        16 => 0xd8,
        _ => {
            if len < 1 << 8 {
                0xc7
            } else if len < 1 << 16 {
                0xc8
            } else {
                0xc9
            }
        }
    }
}

// The first byte of the canonical head of the same kind and number, or `None` for a whole number that no format holds.
fn first_byte(head: Head) -> Option<u8>
    ensures fits { IfSome result (λ b. fits_head head × Opens b (canon_head head)) }
    ensures outside { IfNone result (fits_head head → ⊥) }
{
    match head {
        Head::Nil => Some(0xc0),
        Head::Truth(false) => Some(0xc2),
        Head::Truth(true) => Some(0xc3),
        Head::Whole(z) => {
            if z >= i128::from(i64::MIN) && z <= i128::from(u64::MAX) {
                Some(whole_byte(z))
            } else {
                None
            }
        }
        Head::F32Bits(_) => Some(0xca),
        Head::F64Bits(_) => Some(0xcb),
        Head::Text(len) => Some(text_byte(len)),
        Head::Bin(len) => Some(bin_byte(len)),
        Head::Array(len) => Some(array_byte(len)),
        Head::Map(len) => Some(map_byte(len)),
        Head::Ext(len, tag) => Some(ext_byte(len, tag)),
    }
}

/// Returns whether the marker begins the canonical head of the same kind and number. A number that no format holds has none.
pub fn is_canonical(marker: Marker, head: &Head) -> bool
    ensures canonical { fits_head head.now → (result ≡ true) ↔ Opens (byte_of marker) (canon_head head.now) }
    ensures outside { (fits_head head.now → ⊥) → result ≡ false }
{
    match first_byte(*head) {
        Some(byte) => marker.to_u8() == byte,
        None => false,
    }
}
