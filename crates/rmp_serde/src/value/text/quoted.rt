//! Texts as JSON strings.
ghost use Rattle.std.specs.Prelude.{◌≡◌, ◌≤◌, ◌<◌, ◌++◌, ◌∷◌, true, length, take, slice_index, flat_map, IfSome, MatchOption};
ghost use Rattle.std.specs.Fmt.{WritesOnOk};
ghost use Rattle.rmp_serde.specs.Quoted.{is_escaped, in_string, quoted};

use super::write_block;
use std::fmt;

// Whether a JSON string can't hold the byte as it is.
fn is_escaped(byte: u8) -> bool
    ensures { result ≡ is_escaped byte }
{
    byte < 32 || byte == b'"' || byte == b'\\'
}

// How many bytes come before the first that is escaped.
fn plain_len(bytes: &[u8]) -> usize
    ensures within { result ≤ length bytes.now }
    ensures plain { flat_map in_string (take result bytes.now) ≡ take result bytes.now }
    ensures escaped { result < length bytes.now → is_escaped (slice_index bytes.now result) ≡ true }
{
    let mut len = 0;
    while len < bytes.len() && !is_escaped(bytes[len]) {
        len += 1;
    }
    len
}

// Splits a text at the first byte that is escaped: what comes before it, and the byte with what follows it.
fn split_plain(text: &str) -> (&str, Option<(u8, &str)>)
    ensures plain { flat_map in_string result.0.now ≡ result.0.now }
    ensures all { MatchOption result.1 (text.now ≡ result.0.now) (λ p. text.now ≡ result.0.now ++ p.0 ∷ p.1.now) }
    ensures escaped { IfSome result.1 (λ p. is_escaped p.0 ≡ true) }
{
    let bytes = text.as_bytes();
    let len = plain_len(bytes);
    if len == bytes.len() {
        return (text, None);
    }
    (&text[..len], Some((bytes[len], &text[len + 1..])))
}

// Writes what stands for a byte that is escaped.
fn write_escape<W: fmt::Write>(f: &mut fmt::Formatter<W>, byte: u8) -> fmt::Result
    requires escaped { is_escaped byte ≡ true }
    ensures writes { WritesOnOk W.write_str_gives f.old result (in_string byte) f.new }
{
    match byte {
        b'"' => f.write_str("\\\""),
        b'\\' => f.write_str("\\\\"),
        8 => f.write_str("\\b"),
        12 => f.write_str("\\f"),
        b'\n' => f.write_str("\\n"),
        b'\r' => f.write_str("\\r"),
        b'\t' => f.write_str("\\t"),
        _ => {
            f.write_str("\\u00")?;
            write_block(f, &[byte])
        }
    }
}

// Writes a text as JSON strings hold it, without the quotation marks.
fn write_escaped<W: fmt::Write>(f: &mut fmt::Formatter<W>, text: &str) -> fmt::Result
    ensures writes { WritesOnOk W.write_str_gives f.old result (flat_map in_string text.now) f.new }
{
    let mut left = text;
    'pieces: loop {
        let (plain, rest) = split_plain(left);
        f.write_str(plain)?;
        match rest {
            None => return Ok(()),
            Some((byte, after)) => {
                write_escape(f, byte)?;
                left = after;
            }
        }
    }
}

// Writes a text as a JSON string.
pub(crate) fn write_quoted<W: fmt::Write>(f: &mut fmt::Formatter<W>, text: &str) -> fmt::Result
    ensures writes { WritesOnOk W.write_str_gives f.old result (quoted text.now) f.new }
{
    f.write_str("\"")?;
    write_escaped(f, text)?;
    f.write_str("\"")
}
