//! A message as text.
pub(crate) mod quoted;
mod readable;

ghost use Rattle.std.specs.Prelude.{◌≡◌, ◌≤◌, ◌++◌, ◌∷◌, [], length, IfOk, IfSome, OnOk};
ghost use Rattle.std.specs.Fmt.{IsPlainFormatter, WritesOnOk};
ghost use Rattle.hex.specs.Hex.{encode_lower};
ghost use Rattle.rmp_wire.specs.Spelling.{head_of};
ghost use Rattle.rmp_serde.specs.OpenParts.{head_text, sign_text, next_sign, Begins};
ghost use Rattle.rmp_serde.specs.Parts.{tree, content_of, parts_in_turn};
ghost use Rattle.rmp_serde.specs.PartsLeft.{parts_left};
ghost use Rattle.rmp_serde.specs.TreeText.{tree_text};

use crate::value::flat::Node;
use crate::value::{Kind, Parts, Value, ValueRef};
pub use readable::Readable;
use std::alloc::AllocError;
use std::{fmt, mem, str};

// The number of bytes that are turned into hex digits at a time.
const BLOCK: usize = 64;

/// Prints the tree. The text is on one line, whatever the options are.
///
/// It is `nil`, `true`, `false`, a decimal number, `f32:` or `f64:` and the bits in hex, `t:` or `b:` and bytes
/// in hex, `[a,b]`, `{k=v,k=v}`, or `x(TAG):` and bytes in hex.
///
/// It isn't recursive, however deep the message nests: a vector holds the lists and maps that aren't closed
/// yet. If memory for it runs out, that is an error.
impl fmt::Debug for Value {
    ghost use Rattle.std.specs.Prelude.{Some};
    ghost use Rattle.rmp_serde.specs.TreeText.{tree_text};

    ghost debug_output = { λ v. Some (tree_text v) };

    fn fmt<W: fmt::Write>(&self, f: &mut fmt::Formatter<W>) -> fmt::Result {
        write_tree(f, self.root())
    }
}

/// Prints the part as a `Value` of its own.
impl fmt::Debug for ValueRef<'_> {
    ghost use Rattle.std.specs.Prelude.{Some};
    ghost use Rattle.rmp_serde.specs.Parts.{tree};
    ghost use Rattle.rmp_serde.specs.TreeText.{tree_text};

    ghost debug_output = { λ v. Some (tree_text (tree v)) };

    fn fmt<W: fmt::Write>(&self, f: &mut fmt::Formatter<W>) -> fmt::Result {
        write_tree(f, *self)
    }
}

// Writes the text of a message. The innermost list or map that is open isn't in the vector, so that a message in which none
// contains another allocates nothing.
fn write_tree<W: fmt::Write>(f: &mut fmt::Formatter<W>, value: ValueRef<'_>) -> fmt::Result
    ensures writes { WritesOnOk W.write_str_gives f.old result (tree_text (tree value.entry)) f.new }
{
    let Some(first) = begin(f, value)? else {
        return Ok(());
    };
    let mut last = first;
    let mut around = Vec::new(value.alloc());
    'parts: loop {
        match last.parts.next() {
            Some(part) => {
                last.sign.write(f)?;
                last.sign = last.sign.next(last.is_map);
                if let Some(inner) = begin(f, part)? {
                    put_last(&mut around, mem::replace(&mut last, inner))?;
                }
            }
            None => {
                f.write_str(if last.is_map { "}" } else { "]" })?;
                match around.pop() {
                    Some(outer) => last = outer,
                    None => return Ok(()),
                }
            }
        }
    }
}

// The punctuation before a part.
#[derive(Clone, Copy)]
enum Sign {
    Nothing,
    Comma,
    Equals,
}

impl Sign {
    // Each text is written by a call of its own, which has a constant length.
    fn write<W: fmt::Write>(self, f: &mut fmt::Formatter<W>) -> fmt::Result
        ensures writes { WritesOnOk W.write_str_gives f.old result (sign_text self) f.new }
    {
        match self {
            Sign::Nothing => f.write_str(""),
            Sign::Comma => f.write_str(","),
            Sign::Equals => f.write_str("="),
        }
    }

    // The punctuation before the next part.
    fn next(self, is_map: bool) -> Sign
        ensures { result ≡ next_sign is_map self }
    {
        match self {
            Sign::Nothing | Sign::Comma if is_map => Sign::Equals,
            _ => Sign::Comma,
        }
    }
}

// A list or a map whose text isn't complete: the remaining parts, and the punctuation before the next.
#[derive(Drop)]
struct Open<'a> {
    parts: Parts<'a>,
    is_map: bool,
    sign: Sign,
}

// Adds a list or map. The innermost is last.
fn put_last<'a>(around: &mut Vec<Open<'a>>, last: Open<'a>) -> Result<(), AllocError>
    ensures last { OnOk result (around.new.items ≡ around.old.items ++ last.entry ∷ []) }
{
    around.push(last)?;
    Ok(())
}

// Writes the start of a message's text. A message without parts is complete then; of a list or a map it is the bracket, and the
// parts are returned.
#[inline(always)]
fn begin<'a, W: fmt::Write>(
    f: &mut fmt::Formatter<W>,
    value: ValueRef<'a>,
) -> Result<Option<Open<'a>>, fmt::Error>
    ensures text { IsPlainFormatter f.old → IfOk result (λ begun. Begins W.write_str_gives f.old (tree value.entry) begun f.new) }
    ensures parts { IfOk result (λ begun. IfSome begun (λ o. parts_left o.parts ≡ parts_in_turn (tree value.entry))) }
{
    write_head(f, value)?;
    let is_map = match value.kind() {
        Kind::List => false,
        Kind::Map => true,
        _ => return Ok(None),
    };
    Ok(Some(Open {
        parts: value.parts(),
        is_map,
        sign: Sign::Nothing,
    }))
}

// Writes the text of a message without parts, or the opening bracket of a list or a map.
fn write_head<W: fmt::Write>(f: &mut fmt::Formatter<W>, value: ValueRef<'_>) -> fmt::Result
    ensures writes { WritesOnOk W.write_str_gives f.old result (head_text (head_of (tree value.entry)) (content_of (tree value.entry))) f.new }
{
    match value.node() {
        Node::Nil => f.write_str("nil"),
        Node::Truth(truth) => f.write_str(if truth { "true" } else { "false" }),
        Node::Unsigned(number) => write!(f, "{number}"),
        Node::Signed(number) => write!(f, "{number}"),
        Node::F32(bits) => {
            f.write_str("f32:")?;
            write_block(f, &bits.to_be_bytes())
        }
        Node::F64(bits) => {
            f.write_str("f64:")?;
            write_block(f, &bits.to_be_bytes())
        }
        Node::Text(_, _) => {
            f.write_str("t:")?;
            write_digits(f, value.content())
        }
        Node::Bytes(_, _) => {
            f.write_str("b:")?;
            write_digits(f, value.content())
        }
        Node::List(_, _) => f.write_str("["),
        Node::Map(_, _) => f.write_str("{"),
        Node::Ext(tag, _, _) => {
            write!(f, "x({tag}):")?;
            write_digits(f, value.content())
        }
    }
}

// Writes bytes in lower-case hex.
fn write_digits<W: fmt::Write>(f: &mut fmt::Formatter<W>, bytes: &[u8]) -> fmt::Result
    ensures writes { WritesOnOk W.write_str_gives f.old result (encode_lower bytes.now) f.new }
{
    for block in bytes.chunks(BLOCK) {
        write_block(f, block)?;
    }
    Ok(())
}

// Writes a few bytes in lower-case hex.
fn write_block<W: fmt::Write>(f: &mut fmt::Formatter<W>, block: &[u8]) -> fmt::Result
    requires few { length block.now ≤ 64 }
    ensures writes { WritesOnOk W.write_str_gives f.old result (encode_lower block.now) f.new }
{
    let mut digits = [0; 2 * BLOCK];
    let shown = &mut digits[..2 * block.len()];
    let Ok(()) = hex::encode_to_slice(block, shown) else {
        unreachable!();
    };
    f.write_str(unsafe { str::from_utf8_unchecked(shown) })
}
