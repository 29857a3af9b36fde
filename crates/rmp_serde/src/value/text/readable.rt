//! A message as people read it.
ghost use Rattle.std.specs.Prelude.{◌≡◌, ◌++◌, suc, Bool, IfOk, IfSome};
ghost use Rattle.std.specs.Fmt.{IsPlainFormatter, WritesOnOk};
ghost use Rattle.rmp_serde.specs.OpenReadable.{readable_head, sign_in, end_in, is_key, BeginsPart};
ghost use Rattle.rmp_serde.specs.Parts.{tree, parts_in_turn};
ghost use Rattle.rmp_serde.specs.PartsLeft.{parts_left};
ghost use Rattle.rmp_serde.specs.Readable.{gap, key_text, readable, spaces};

use super::quoted::write_quoted;
use super::{Open, Sign, put_last, write_head, write_tree};
use crate::value::{Kind, Value, ValueRef};
use std::{fmt, mem};

// How a text is laid out.
#[derive(Clone, Copy)]
enum Layout {
    /// On one line.
    Line,
    /// With a line for each part, indented.
    Indented,
}

/// A message as text that people read, made by [`Value::readable`].
#[derive(Clone, Copy)]
pub struct Readable<'a> {
    value: ValueRef<'a>,
    layout: Layout,
}

impl Value {
    ghost use Rattle.rmp_serde.specs.Readable.{message_in, layout_in};
    ghost use Rattle.rmp_serde.specs.declared.value.text.readable.Layout.TheVariants.{Line};

    /// The message as text that people read: JSON, where JSON has words for it.
    ///
    /// `null`, `true`, `false`, numbers, lists and maps are as in JSON, and texts are JSON strings. All else is as `{:?}`
    /// prints it: floats by their bits, bytes, extensions, and keys that aren't texts.
    ///
    /// `value.readable()` prints `{"pid":5,"tags":["a",null]}`, on one line. `value.readable().pretty()` indents it.
    pub fn readable(&self) -> Readable<'_>
        ensures message { message_in result ≡ self.now }
        ensures layout { layout_in result ≡ Line }
    {
        self.root().readable()
    }
}

impl<'a> ValueRef<'a> {
    ghost use Rattle.rmp_serde.specs.Parts.{tree};
    ghost use Rattle.rmp_serde.specs.Readable.{message_in, layout_in};
    ghost use Rattle.rmp_serde.specs.declared.value.text.readable.Layout.TheVariants.{Line};

    /// The part as text that people read, as that of a `Value` of its own.
    pub fn readable(self) -> Readable<'a>
        ensures message { message_in result ≡ tree self.entry }
        ensures layout { layout_in result ≡ Line }
    {
        Readable {
            value: self,
            layout: Layout::Line,
        }
    }
}

impl<'a> Readable<'a> {
    ghost use Rattle.rmp_serde.specs.Readable.{message_in, layout_in};
    ghost use Rattle.rmp_serde.specs.declared.value.text.readable.Layout.TheVariants.{Indented};

    /// The same with a line for each item and each pair, indented by two spaces for each list or map around it.
    pub fn pretty(self) -> Readable<'a>
        ensures message { message_in result ≡ message_in self.entry }
        ensures layout { layout_in result ≡ Indented }
    {
        Readable {
            value: self.value,
            layout: Layout::Indented,
        }
    }
}

/// It isn't recursive, however deep the message nests: a vector holds the lists and maps that aren't closed yet. If memory
/// for it runs out, that is an error.
impl fmt::Display for Readable<'_> {
    ghost use Rattle.std.specs.Prelude.{Some};
    ghost use Rattle.rmp_serde.specs.Readable.{message_in, layout_in, readable};

    ghost output = { λ r. Some (readable (layout_in r) 0 (message_in r)) };

    fn fmt<W: fmt::Write>(&self, f: &mut fmt::Formatter<W>) -> fmt::Result {
        write_readable(f, self.value, self.layout)
    }
}

// Writes the text of a message. The innermost list or map that is open isn't in the vector, as in `write_tree`.
fn write_readable<W: fmt::Write>(
    f: &mut fmt::Formatter<W>,
    value: ValueRef<'_>,
    layout: Layout,
) -> fmt::Result
    ensures writes { WritesOnOk W.write_str_gives f.old result (readable layout 0 (tree value.entry)) f.new }
{
    let Some(first) = begin(f, value, false)? else {
        return Ok(());
    };
    let mut last = first;
    let mut around = Vec::new(value.alloc());
    'parts: loop {
        match last.parts.next() {
            Some(part) => {
                write_sign(f, last.sign, layout, around.len() + 1)?;
                let key = is_key(last.is_map, last.sign);
                last.sign = last.sign.next(last.is_map);
                if let Some(inner) = begin(f, part, key)? {
                    put_last(&mut around, mem::replace(&mut last, inner))?;
                }
            }
            None => {
                write_end(f, last.is_map, last.sign, layout, around.len())?;
                match around.pop() {
                    Some(outer) => last = outer,
                    None => return Ok(()),
                }
            }
        }
    }
}

// Whether the next part is a key.
fn is_key(is_map: bool, sign: Sign) -> bool
    ensures { result ≡ is_key is_map sign }
{
    match sign {
        Sign::Nothing | Sign::Comma => is_map,
        Sign::Equals => false,
    }
}

// Writes what comes before a part that is inside of so many lists and maps.
fn write_sign<W: fmt::Write>(
    f: &mut fmt::Formatter<W>,
    sign: Sign,
    layout: Layout,
    depth: usize,
) -> fmt::Result
    ensures writes { WritesOnOk W.write_str_gives f.old result (sign_in layout depth sign) f.new }
{
    match sign {
        Sign::Nothing => write_gap(f, layout, depth),
        Sign::Comma => {
            f.write_str(",")?;
            write_gap(f, layout, depth)
        }
        Sign::Equals => match layout {
            Layout::Line => f.write_str(":"),
            Layout::Indented => f.write_str(": "),
        },
    }
}

// Writes the closing bracket of a list or a map that is inside of so many others.
fn write_end<W: fmt::Write>(
    f: &mut fmt::Formatter<W>,
    is_map: bool,
    sign: Sign,
    layout: Layout,
    depth: usize,
) -> fmt::Result
    ensures writes { WritesOnOk W.write_str_gives f.old result (end_in layout depth is_map sign) f.new }
{
    match sign {
        Sign::Nothing => {}
        Sign::Comma | Sign::Equals => write_gap(f, layout, depth)?,
    }
    f.write_str(if is_map { "}" } else { "]" })
}

// Ends the line and indents the next one, where the layout has lines.
fn write_gap<W: fmt::Write>(f: &mut fmt::Formatter<W>, layout: Layout, depth: usize) -> fmt::Result
    ensures writes { WritesOnOk W.write_str_gives f.old result (gap layout depth) f.new }
{
    match layout {
        Layout::Line => f.write_str(""),
        Layout::Indented => {
            f.write_str("\n")?;
            write_spaces(f, depth)
        }
    }
}

// Writes two spaces for each of so many lists and maps.
fn write_spaces<W: fmt::Write>(f: &mut fmt::Formatter<W>, depth: usize) -> fmt::Result
    ensures writes { WritesOnOk W.write_str_gives f.old result (spaces depth) f.new }
{
    for _list in 0..depth {
        f.write_str("  ")?;
    }
    Ok(())
}

// Writes the start of a part's text. A part without parts of its own is complete then, and so is a key; of a list or a map it
// is the bracket, and the parts are returned.
fn begin<'a, W: fmt::Write>(
    f: &mut fmt::Formatter<W>,
    value: ValueRef<'a>,
    key: bool,
) -> Result<Option<Open<'a>>, fmt::Error>
    ensures text { IsPlainFormatter f.old → IfOk result (λ begun. BeginsPart W.write_str_gives f.old key (tree value.entry) begun f.new) }
    ensures parts { IfOk result (λ begun. IfSome begun (λ o. parts_left o.parts ≡ parts_in_turn (tree value.entry))) }
{
    if key {
        write_key(f, value)?;
        return Ok(None);
    }
    write_readable_head(f, value)?;
    let is_map = match value.kind() {
        Kind::List => false,
        Kind::Map => true,
        _ => return Ok(None),
    };
    Ok(Some(Open {
        parts: value.parts(),
        is_map,
        sign: Sign::Nothing,
    }))
}

// Writes the whole text of a key.
fn write_key<W: fmt::Write>(f: &mut fmt::Formatter<W>, key: ValueRef<'_>) -> fmt::Result
    ensures writes { WritesOnOk W.write_str_gives f.old result (key_text (tree key.entry)) f.new }
{
    match key.as_str() {
        Some(text) => write_quoted(f, text),
        None => write_tree(f, key),
    }
}

// Writes the text of a message without parts, or the opening bracket of a list or a map.
fn write_readable_head<W: fmt::Write>(f: &mut fmt::Formatter<W>, value: ValueRef<'_>) -> fmt::Result
    ensures writes { WritesOnOk W.write_str_gives f.old result (readable_head (tree value.entry)) f.new }
{
    match value.kind() {
        Kind::Nil => f.write_str("null"),
        Kind::Text => write_key(f, value),
        _ => write_head(f, value),
    }
}
