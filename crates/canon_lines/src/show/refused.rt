//! Why a message can't be read, and where.
ghost use Rattle.std.specs.Prelude.{◌≡◌, ◌≢◌, ◌≤◌, IfOk, OnOk, length};
ghost use Rattle.rmp_wire.specs.declared.head.Head.{Head};
ghost use Rattle.rmp_wire.specs.declared.head.Head.TheVariants as head;
ghost use Rattle.canon_lines.specs.Refused.{HasContent, IsEnd, IsWhy, IsWhyAfter, RefusesPart};

use rmp_decode::Error;
use rmp_serde::wire::{Head, ValueReadError, next_head};
use rmp_serde::{Path, path_at};
use std::alloc::{AllocError, Global};
use std::{fmt, str};

/// What follows a head and isn't messages.
#[derive(Clone, Copy)]
pub enum Content {
    Text,
    Bytes,
    Extension,
}

/// Why a part of a message can't be read.
#[derive(Clone, Copy)]
pub enum Why {
    /// The input ends before it.
    Absent,
    /// The input ends inside of its head.
    CutHead,
    /// The input ends inside of its content: how many bytes of it are there, and how many there should be.
    CutContent(Content, usize, u32),
    /// The byte c1 is there, which begins no message.
    Reserved,
    /// It is a text that isn't UTF-8.
    NotUtf8,
    /// It is a list or a map that nests too deep.
    TooDeep,
    /// Another reason. No read of a value has one.
    Unreadable,
}

/// A message that can't be read.
#[derive(Drop)]
pub struct Refused {
    /// The number of the message: the first has 1.
    pub number: u64,
    /// The offset of the refused part in the input.
    pub offset: u64,
    /// The path to it in the message.
    pub path: Path,
    pub why: Why,
}

// Why content of so many bytes can't be read that these bytes begin with: only if they end inside of it.
fn why_content(kind: Content, bytes: &[u8], len: u32) -> Why
    ensures { (h : Head) → HasContent kind len h → IsWhyAfter h bytes.now result }
{
    if bytes.len() < len as usize {
        return Why::CutContent(kind, bytes.len(), len);
    }
    Why::Unreadable
}

// The same of a text, which may not be UTF-8.
fn why_text(bytes: &[u8], len: u32) -> Why
    ensures { IsWhyAfter (head.Text len) bytes.now result }
{
    if bytes.len() < len as usize {
        return Why::CutContent(Content::Text, bytes.len(), len);
    }
    match str::from_utf8(&bytes[..len as usize]) {
        Ok(_) => Why::Unreadable,
        Err(_) => Why::NotUtf8,
    }
}

// Why a part can't be read that has this head, with these bytes after it.
fn why_after(head: Head, rest: &[u8]) -> Why
    ensures { IsWhyAfter head rest.now result }
{
    match head {
        Head::Text(len) => why_text(rest, len),
        Head::Bin(len) => why_content(Content::Bytes, rest, len),
        Head::Ext(len, _) => why_content(Content::Extension, rest, len),
        Head::Array(_) | Head::Map(_) => Why::TooDeep,
        _ => Why::Unreadable,
    }
}

// Why the part can't be read that these bytes begin with.
fn why_at(bytes: &[u8]) -> Why
    ensures { IsWhy bytes.now result }
{
    let mut rest = bytes;
    match next_head(&mut rest) {
        Ok((_, head)) => why_after(head, rest),
        Err(ValueReadError::InvalidMarkerRead(_)) => Why::Absent,
        Err(ValueReadError::InvalidDataRead(_)) => Why::CutHead,
        Err(ValueReadError::TypeMismatch(_)) => Why::Reserved,
    }
}

// The offset that the refused part is found by: of bytes that end too soon their end, and otherwise the last one that was consumed.
fn refused_at(error: &Error, len: usize, taken: usize) -> Result<usize, AllocError>
    requires within { taken ≤ len }
    ensures memory { OnOk result (error.now ≢ Error.OutOfMemory) }
    ensures end { IfOk result (λ at. IsEnd error.now → at ≡ len) }
    ensures within { IfOk result (λ at. at ≤ len) }
{
    match error {
        Error::InvalidMarkerRead(_) | Error::InvalidDataRead(_) => Ok(len),
        Error::OutOfMemory => Err(AllocError),
        _ => Ok(taken.saturating_sub(1)),
    }
}

/// Finds the refused part of a message, and why it is refused: `taken` is how many of the bytes the reader had consumed.
pub fn refused_part(
    alloc: Global,
    bytes: &[u8],
    taken: usize,
    error: &Error,
) -> Result<(Path, Why), AllocError>
    requires within { taken ≤ length bytes.now }
    ensures memory { OnOk result (error.now ≢ Error.OutOfMemory) }
    ensures part { IfOk result (λ p. RefusesPart error.now bytes.now p.0 p.1) }
{
    let at = refused_at(error, bytes.len(), taken)?;
    let path = path_at(alloc, bytes, at)?;
    let why = why_at(&bytes[path.place()..]);
    Ok((path, why))
}

impl fmt::Display for Content {
    ghost use Rattle.std.specs.Prelude.{Some};
    ghost use Rattle.canon_lines.specs.Refused.{content_text};

    ghost output = { λ c. Some (content_text c) };

    fn fmt<W: fmt::Write>(&self, f: &mut fmt::Formatter<W>) -> fmt::Result {
        match self {
            Content::Text => f.write_str("the text ends"),
            Content::Bytes => f.write_str("the bytes end"),
            Content::Extension => f.write_str("the extension ends"),
        }
    }
}

impl fmt::Display for Why {
    ghost use Rattle.std.specs.Prelude.{Some};
    ghost use Rattle.canon_lines.specs.Refused.{why_text};

    ghost output = { λ w. Some (why_text w) };

    fn fmt<W: fmt::Write>(&self, f: &mut fmt::Formatter<W>) -> fmt::Result {
        match self {
            Why::Absent => f.write_str("the input ends"),
            Why::CutHead => f.write_str("the input ends inside of a head"),
            Why::CutContent(content, there, len) => write!(
                f,
                "{content} after {there} of {len} bytes"
            ),
            Why::Reserved => f.write_str("the byte c1 begins no message"),
            Why::NotUtf8 => f.write_str("the text isn't UTF-8"),
            Why::TooDeep => f.write_str("lists and maps nest too deep"),
            Why::Unreadable => f.write_str("this can't be read"),
        }
    }
}

/// `message 3: refused at byte 40 in .name: the text ends after 12 of 300 bytes`. Of the message itself the path is left out.
impl fmt::Display for Refused {
    ghost use Rattle.std.specs.Prelude.{Some};
    ghost use Rattle.canon_lines.specs.Refused.{refused_message};

    ghost output = { λ r. Some (refused_message r) };

    fn fmt<W: fmt::Write>(&self, f: &mut fmt::Formatter<W>) -> fmt::Result {
        write!(
            f,
            "message {}: refused at byte {}",
            self.number, self.offset
        )?;
        if !self.path.steps().is_empty() {
            write!(f, " in {}", self.path)?;
        }
        write!(f, ": {}", self.why)
    }
}
