//! The digits of a line.
ghost use Rattle.std.specs.Prelude.{◌≡◌, ◌≢◌, ◌≤◌, ◌<◌, ◌*◌, ◌%◌, ◌⊎◌, [], length, vec_capacity, not, filter, true, Some, IfOk, OnOk, IfErr};
ghost use Rattle.std.specs.Str.Lines.{strip_carriage_return};
ghost use Rattle.hex.specs.Hex.{decode_of, hex_digit_value};
ghost use Rattle.canon_lines.specs.Lines.{digits_in, is_blank};
ghost use Rattle.canon_lines.specs.declared.digits.TheConstants.{NONE};

use hex::FromHexError;
use std::alloc::{AllocError, Global};
use std::mem;

// A line without one carriage return at its end.
fn without_return(line: &[u8]) -> &[u8]
    ensures { result.now ≡ strip_carriage_return line.now }
{
    line.strip_suffix(b"\r").unwrap_or(line)
}

// A copy of a line without its spaces and tabs.
fn without_blanks(alloc: Global, line: &[u8]) -> Result<Vec<u8>, AllocError>
    ensures { IfOk result (λ v. v.items ≡ filter (λ b. not (is_blank b)) line.now) }
{
    line.iter()
        .copied()
        .filter(|byte| *byte != b' ' && *byte != b'\t')
        .collect(alloc)
}

// What is no digit.
const NONE: u8 = 0xff;

// The most that the values of two digits add up to.
const MOST: u32 = 30;

// The value of each digit, in either case.
const VALUES: [u8; 256] = [
    NONE, NONE, NONE, NONE, NONE, NONE, NONE, NONE, NONE, NONE, NONE, NONE, NONE, NONE, NONE, NONE,
    NONE, NONE, NONE, NONE, NONE, NONE, NONE, NONE, NONE, NONE, NONE, NONE, NONE, NONE, NONE, NONE,
    NONE, NONE, NONE, NONE, NONE, NONE, NONE, NONE, NONE, NONE, NONE, NONE, NONE, NONE, NONE, NONE,
    0, 1, 2, 3, 4, 5, 6, 7, 8, 9, NONE, NONE, NONE, NONE, NONE, NONE, NONE, 10, 11, 12, 13, 14, 15,
    NONE, NONE, NONE, NONE, NONE, NONE, NONE, NONE, NONE, NONE, NONE, NONE, NONE, NONE, NONE, NONE,
    NONE, NONE, NONE, NONE, NONE, NONE, NONE, NONE, NONE, NONE, 10, 11, 12, 13, 14, 15, NONE, NONE,
    NONE, NONE, NONE, NONE, NONE, NONE, NONE, NONE, NONE, NONE, NONE, NONE, NONE, NONE, NONE, NONE,
    NONE, NONE, NONE, NONE, NONE, NONE, NONE, NONE, NONE, NONE, NONE, NONE, NONE, NONE, NONE, NONE,
    NONE, NONE, NONE, NONE, NONE, NONE, NONE, NONE, NONE, NONE, NONE, NONE, NONE, NONE, NONE, NONE,
    NONE, NONE, NONE, NONE, NONE, NONE, NONE, NONE, NONE, NONE, NONE, NONE, NONE, NONE, NONE, NONE,
    NONE, NONE, NONE, NONE, NONE, NONE, NONE, NONE, NONE, NONE, NONE, NONE, NONE, NONE, NONE, NONE,
    NONE, NONE, NONE, NONE, NONE, NONE, NONE, NONE, NONE, NONE, NONE, NONE, NONE, NONE, NONE, NONE,
    NONE, NONE, NONE, NONE, NONE, NONE, NONE, NONE, NONE, NONE, NONE, NONE, NONE, NONE, NONE, NONE,
    NONE, NONE, NONE, NONE, NONE, NONE, NONE, NONE, NONE, NONE, NONE, NONE, NONE, NONE, NONE, NONE,
    NONE, NONE, NONE, NONE, NONE, NONE, NONE, NONE, NONE, NONE, NONE, NONE, NONE, NONE, NONE, NONE,
    NONE, NONE, NONE, NONE, NONE, NONE, NONE,
];

// The value of a digit, and `NONE` of another byte.
#[inline(always)]
fn value_of(digit: u8) -> u8
    ensures value { result ≢ NONE → hex_digit_value digit ≡ Some result }
    ensures below { result ≢ NONE → result < 16 }
{
    VALUES[digit as usize]
}

// Whether neither value is `NONE`. It takes one comparison: with `NONE` the sum is more.
fn are_digits(high: u8, low: u8) -> bool
    ensures high { result ≡ true → high ≢ NONE }
    ensures low { result ≡ true → low ≢ NONE }
{
    u32::from(high) + u32::from(low) <= MOST
}

// Decodes an even number of digits into bytes, for which there is room, and says whether there was nothing else among them. A
// vector of its own has its address and its length in registers, which takes 15 instructions a byte, and 20 through a reference.
fn decode_pairs(digits: &[u8], none: Vec<u8>) -> (Vec<u8>, bool)
    requires even { length digits.now % 2 ≡ 0 }
    requires none { none.items ≡ [] }
    requires room { length digits.now ≤ 2 * vec_capacity none }
    ensures plain { result.1 ≡ true → decode_of digits.now ≡ Ok result.0.items }
{
    let mut bytes = none;
    for i in 0..digits.len() / 2 {
        let high = value_of(digits[2 * i]);
        let low = value_of(digits[2 * i + 1]);
        if !are_digits(high, low) {
            return (bytes, false);
        }
        bytes.push_reserved(high * 16 + low);
    }
    (bytes, true)
}

// Decodes digits into bytes, in place of those that were there, and says whether there was nothing else among them.
fn decode_plain(digits: &[u8], bytes: &mut Vec<u8>) -> Result<bool, AllocError>
    ensures plain { IfOk result (λ plain. plain ≡ true → decode_of digits.now ≡ Ok bytes.new.items) }
{
    bytes.clear();
    if digits.len() % 2 != 0 {
        return Ok(false);
    }
    bytes.reserve(digits.len() / 2)?;
    let none = Vec::new(*bytes.allocator());
    let (decoded, plain) = decode_pairs(digits, mem::replace(bytes, none));
    *bytes = decoded;
    Ok(plain)
}

/// Decodes a line into bytes, in place of those that were there. One carriage return at its end is dropped, and spaces and tabs anywhere.
#[inline(always)]
pub fn decode_line(alloc: Global, line: &[u8], bytes: &mut Vec<u8>) -> Result<(), FromHexError>
    ensures ok { OnOk result (decode_of (digits_in line.now) ≡ Ok bytes.new.items) }
    ensures err { IfErr result (λ e. (e ≡ FromHexError.OutOfMemory) ⊎ (decode_of (digits_in line.now) ≡ Err e)) }
{
    let line = without_return(line);
    // Spaces and tabs are looked for only in a line that has more than digits.
    if decode_plain(line, bytes)? {
        return Ok(());
    }
    *bytes = hex::decode(alloc, without_blanks(alloc, line)?)?;
    Ok(())
}
