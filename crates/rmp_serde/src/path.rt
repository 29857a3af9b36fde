//! The path from a message to one of its parts, for people.
ghost use Rattle.std.specs.Prelude.{◌≡◌, IfOk};
ghost use Rattle.std.specs.Fmt.{WritesOnOk};
ghost use Rattle.rmp_path.specs.Places.{Locates};
ghost use Rattle.rmp_serde.specs.Paths.{IsPathOf, IsStep, is_plain, is_plain_byte, key_name, message_of, place_of, steps_of};

use crate::value::Value;
use crate::value::text::quoted::write_quoted;
use rmp_decode::Error;
use rmp_path::{Location, Turn, locate};
use std::alloc::{AllocError, Global};
use std::fmt;

/// A step from a list or a map into one of its parts. `Display` prints it as a part of a path.
#[derive(Debug, Drop)]
pub enum Step {
    /// Into the element that has so many before it.
    Index(u64),
    /// Into the value of the key that is this text.
    Key(String),
    /// Into the value of a key of another kind: this is the text of its tree, as `{:?}` of a `Value` has it.
    Other(String),
    /// Into the value of the pair that has so many before it. Its key has no text: it isn't UTF-8, or nests too deep.
    Value(u64),
    /// Into the key of the pair that has so many before it.
    KeyOf(u64),
}

/// The path from a message to one of its parts: `.origin.pid`, `.tags[1]`.
///
/// `Display` prints it. The message itself has the empty path. An element is `[1]`, and the value of a key `.key`: a text of
/// letters, digits, `_` and `-` as it is, another text as a JSON string, and another key as the text of its tree, as
/// `.{5}`. A key itself is `{key 2}`, with the number of pairs before it, and a value whose key has no text `{value 2}`.
#[derive(Debug, Drop)]
pub struct Path {
    message: usize,
    place: usize,
    steps: Vec<Step>,
}

impl Path {
    /// Returns the offset where the message begins.
    pub fn message(&self) -> usize
        ensures { result ≡ message_of self.now }
    {
        self.message
    }

    /// Returns the offset where the part begins.
    pub fn place(&self) -> usize
        ensures { result ≡ place_of self.now }
    {
        self.place
    }

    /// Returns the steps from the message to the part.
    pub fn steps(&self) -> &[Step]
        ensures { result.now ≡ steps_of self.now }
    {
        &self.steps
    }
}

/// Finds the part of a message that an offset is in, and the path to it. The input is one message, or several that follow one another.
///
/// It is the part whose own head or content the offset is in. Where the input ends inside of a head or content, or before a
/// message that is wanted, or where the byte c1 is in the place of a message, and the offset is there or later, it is that
/// part.
///
/// It takes time in proportion to the offset, and memory for the path.
///
/// # Errors
/// `AllocError` if memory is refused.
///
/// # Examples
/// ```
/// use rmp_serde::path_at;
///
/// // {"tags": ["a", 5]}
/// let input = b"\x81\xa4tags\x92\xa1a\x05";
/// let path = path_at(alloc, input, 9)?;
/// assert_eq!(rt; format!(in alloc; "{path}")?.as_str(), ".tags[1]");
/// assert_eq!(rt; path.place(), 9);
/// ```
pub fn path_at(alloc: Global, input: &[u8], offset: usize) -> Result<Path, AllocError>
    ensures { IfOk result (λ p. (found : Location) × Locates input.now offset found × IsPathOf input.now found p) }
{
    let found = locate(alloc, input, offset)?;
    path_of(alloc, input, found)
}

// The path to a part that was located.
pub(crate) fn path_of(alloc: Global, input: &[u8], found: Location) -> Result<Path, AllocError>
    ensures { IfOk result (IsPathOf input.now found) }
{
    let mut steps = Vec::new(alloc);
    for turn in &found.turns {
        steps.push(step_of(alloc, input, turn)?)?;
    }
    Ok(Path {
        message: found.message,
        place: found.place,
        steps,
    })
}

// The step of a turn.
fn step_of(alloc: Global, input: &[u8], turn: &Turn) -> Result<Step, AllocError>
    ensures { IfOk result (IsStep input.now turn.now) }
{
    if !turn.is_map() {
        return Ok(Step::Index(turn.before()));
    }
    let pairs = turn.before() / 2;
    if turn.before() % 2 == 0 {
        return Ok(Step::KeyOf(pairs));
    }
    let (from, to) = (turn.previous(), turn.start());
    if from > to || to > input.len() {
        return Ok(Step::Value(pairs));
    }
    let value = match Value::from_slice(alloc, &input[from..to]) {
        Ok(value) => value,
        Err(Error::OutOfMemory) => return Err(AllocError),
        Err(_) => return Ok(Step::Value(pairs)),
    };
    match value.root().as_str() {
        Some(text) => Ok(Step::Key(String::from_str(alloc, text)?)),
        None => Ok(Step::Other(format!(in alloc; "{value:?}")?)),
    }
}

impl fmt::Display for Path {
    ghost use Rattle.std.specs.Prelude.{Some};
    ghost use Rattle.rmp_serde.specs.Paths.{path_text};

    ghost output = { λ p. Some (path_text p) };

    fn fmt<W: fmt::Write>(&self, f: &mut fmt::Formatter<W>) -> fmt::Result {
        for step in &self.steps {
            write!(f, "{step}")?;
        }
        Ok(())
    }
}

impl fmt::Display for Step {
    ghost use Rattle.std.specs.Prelude.{Some};
    ghost use Rattle.rmp_serde.specs.Paths.{step_text};

    ghost output = { λ s. Some (step_text s) };

    fn fmt<W: fmt::Write>(&self, f: &mut fmt::Formatter<W>) -> fmt::Result {
        match self {
            Step::Index(n) => write!(f, "[{n}]"),
            Step::Key(text) => {
                f.write_str(".")?;
                write_key_name(f, text)
            }
            Step::Other(text) => write!(f, ".{text}"),
            Step::Value(n) => write!(f, "{{value {n}}}"),
            Step::KeyOf(n) => write!(f, "{{key {n}}}"),
        }
    }
}

// Writes a key that is a text.
fn write_key_name<W: fmt::Write>(f: &mut fmt::Formatter<W>, text: &str) -> fmt::Result
    ensures writes { WritesOnOk W.write_str_gives f.old result (key_name text.now) f.new }
{
    if is_plain(text) {
        f.write_str(text)
    } else {
        write_quoted(f, text)
    }
}

// Whether a text has letters, digits, `_` and `-` alone, and at least one.
fn is_plain(text: &str) -> bool
    ensures { result ≡ is_plain text.now }
{
    !text.is_empty() && text.as_bytes().iter().all(|b| is_plain_byte(*b))
}

fn is_plain_byte(byte: u8) -> bool
    ensures { result ≡ is_plain_byte byte }
{
    byte.is_ascii_alphanumeric() || byte == b'_' || byte == b'-'
}
