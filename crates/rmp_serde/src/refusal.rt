//! A refusal that says where in the message it is.
ghost use Rattle.std.specs.Prelude.{◌≡◌, ◌≢◌, ◌++◌, ◌-◌, IfOk, IfErr, MatchOption, codes, drop, false, true, length, Some, None};
ghost use Rattle.std.specs.Fmt.{DisplaysOnOk, WritesOnOk};
ghost use Rattle.std.specs.Option.{option_copied, option_map};
ghost use Rattle.rmp_wire.specs.Canonical.{IsCanonical};
ghost use Rattle.rmp_wire.specs.RefReader.{rest_of, whole_of};
ghost use Rattle.rmp_wire.specs.Spelling.{Spells};
ghost use Rattle.rmp_decode.specs.Law.{Begins, Readable};
ghost use Rattle.rmp_decode.specs.Refusing.{slice_setting};
ghost use Rattle.rmp_decode.specs.State.{reader_of, refused_levels};
ghost use Rattle.rmp_serde.specs.ExplainedText.{count_text, error_text, fault_text, head_words, is_for_parts, name_text, part_text, path_words};
ghost use Rattle.rmp_serde.specs.Explaining.{error_in, head_in, kind_begun, name_in, path_in, position_in};
ghost use Rattle.rmp_serde.specs.Paths.{steps_of};
ghost use Rattle.rmp_serde.specs.Explaining.{BeginsWith, Explains, ExplainsRead, FindsName, FindsText, IsInside, IsTextAfter, IsTextAt, NamesPart, Refuses};

use crate::path::{Path, path_of};
use crate::value::Kind;
use crate::value::text::quoted::write_quoted;
use rmp_decode::{Deserialize, Deserializer, Error, Text};
use rmp_path::{Location, locate};
use rmp_wire::{Head, Marker, ReadRefReader, next_head};
use std::alloc::{AllocError, Global};
use std::io::ErrorKind;
use std::{fmt, str};

/// A read's error, and the part of the message that was refused.
///
/// `Display` prints a line: `missing field "pid" in .origin (byte 33)`, `invalid type at .tags[1] (byte 62): the integer 5`. The byte is the
/// reader's position where a list or a map is refused for its parts, and otherwise the offset where the refused part begins.
#[derive(Debug, Drop)]
pub struct Explained {
    error: Error,
    position: usize,
    path: Option<Path>,
    head: Option<Head>,
    // The name in the message that the error is about, if it is about one.
    found: Option<String>,
}

impl Explained {
    /// Explains an error: `input` are the bytes that were read, `position` is how many of them the reader had consumed, and `levels`
    /// is its `refused_levels`.
    ///
    /// For a reader of a slice `explain` has the same from the reader itself.
    pub fn new(alloc: Global, input: &[u8], position: usize, levels: u32, error: Error) -> Explained
        ensures { Explains input.now position levels error result }
    {
        let (path, head, found) = match named_part(alloc, input, position, levels, &error) {
            Ok((path, head, found)) => (Some(path), head, found),
            Err(AllocError) => (None, None, None),
        };
        Explained {
            error,
            position,
            path,
            head,
            found,
        }
    }

    /// Returns the error, as the read returned it.
    pub fn error(&self) -> &Error
        ensures { result.now ≡ error_in self.now }
    {
        &self.error
    }

    /// Returns the error, as the read returned it.
    pub fn into_error(self) -> Error
        ensures { result ≡ error_in self }
    {
        self.error
    }

    /// Returns the path to the refused part, or `None` if memory was refused for it.
    pub fn path(&self) -> Option<&Path>
        ensures { option_copied result ≡ path_in self.now }
    {
        self.path.as_ref()
    }

    /// Returns the name that the error is about: that of a field that is missing or comes twice, or of a variant that is unknown.
    ///
    /// It is `None` of another error, where the message has a number or bytes for the name, and where memory was refused for it. Of a
    /// missing field it is what `Error::field` returns.
    ///
    /// # Examples
    /// ```
    /// use rmp_serde::decode::{Deserializer, Error};
    /// use rmp_serde::explain;
    ///
    /// // {"id": 1, "id": 2}
    /// let mut de = Deserializer::from_read_ref(alloc, b"\x82\xa2id\x01\xa2id\x02");
    /// let read: Result<(u8, ()), Error> = de.deserialize_fields(&["id"]);
    /// if let Err(error) = read {
    ///     let refused = explain(&de, error);
    ///     assert_eq!(rt; refused.name(), Some("id"));
    ///     let why = format!(in alloc; "{refused}")?;
    ///     assert_eq!(rt; why.as_str(), "duplicate field \"id\" (byte 8)");
    /// }
    /// ```
    pub fn name(&self) -> Option<&str>
        ensures { MatchOption result (name_in self.now ≡ None) (λ name. name_in self.now ≡ Some name.now) }
    {
        match self.error.field() {
            Some(name) => Some(name),
            None => match &self.found {
                Some(name) => Some(name.as_str()),
                None => None,
            },
        }
    }

    /// Returns how many bytes the reader had consumed.
    pub fn position(&self) -> usize
        ensures { result ≡ position_in self.now }
    {
        self.position
    }

    /// Returns the kind of the refused part, or `None` if no whole head is there, or if memory was refused for the path.
    pub fn kind(&self) -> Option<Kind>
        ensures { result ≡ option_map kind_begun (head_in self.now) }
    {
        self.head.map(kind_of)
    }
}

/// Explains the error of a read from a slice. `de` is the reader that returned it.
///
/// # Examples
/// ```
/// use rmp_serde::decode::Deserialize;
/// use rmp_serde::{Deserializer, explain};
///
/// let mut de = Deserializer::from_read_ref(alloc, &[0x92, 0xc3, 0x05]);
/// if let Err(error) = <Vec<bool>>::deserialize(&mut de) {
///     let why = format!(in alloc; "{}", explain(&de, error))?;
///     assert_eq!(rt; why.as_str(), "invalid type at [1] (byte 2): the integer 5");
/// }
/// ```
pub fn explain<C>(de: &Deserializer<ReadRefReader<'_>, C>, error: Error) -> Explained
    ensures { Explains (whole_of (reader_of de.now)) (length (whole_of (reader_of de.now)) - length (rest_of (reader_of de.now))) (refused_levels de.now)
        error result }
{
    let input = de.get_ref();
    let position = input.len().saturating_sub(de.remaining_slice().len());
    Explained::new(de.alloc(), input, position, de.refused_levels(), error)
}

/// Reads a value from the beginning of the input, as `from_slice` does. An error says where in the message it is.
///
/// # Errors
/// As `from_slice`.
///
/// # Examples
/// ```
/// use rmp_serde::from_slice_explained;
///
/// // a list of two pairs, the second with the number 3 in place of a truth
/// if let Err(refused) = from_slice_explained::<Vec<(u8, bool)>>(alloc, &[0x92, 0x92, 1, 0xc3, 0x92, 2, 3]) {
///     let why = format!(in alloc; "{refused}")?;
///     assert_eq!(rt; why.as_str(), "invalid type at [1][1] (byte 6): the integer 3");
/// }
/// ```
pub fn from_slice_explained<'de, T: Deserialize<'de, ReadRefReader<'de>>>(
    alloc: Global,
    input: &'de [u8],
) -> Result<T, Explained>
    ensures ok { IfOk result (λ v. Begins Spells (λ m. T.reads false true m v) 1024 input.now) }
    ensures err { IfErr result (λ e. error_in e ≢ Error.OutOfMemory → Begins Spells (Readable (T.reads false true)) 1024 input.now → ⊥) }
    ensures refused { IfErr result (λ e. T.refuses (slice_setting false) 0 0 (Some input.now) (error_in e)) }
    // And it names the part, by how much of the input was consumed.
    ensures explained { IfErr result (ExplainsRead input.now) }
{
    let mut de = Deserializer::from_read_ref(alloc, input);
    match T::deserialize(&mut de) {
        Ok(value) => Ok(value),
        Err(error) => Err(explain(&de, error)),
    }
}

/// Reads a value from the beginning of the input, as `from_slice_strict` does. An error says where in the message it is.
///
/// # Errors
/// As `from_slice_strict`.
pub fn from_slice_strict_explained<'de, T: Deserialize<'de, ReadRefReader<'de>>>(
    alloc: Global,
    input: &'de [u8],
) -> Result<T, Explained>
    ensures ok { IfOk result (λ v. Begins IsCanonical (λ m. T.reads false true m v) 1024 input.now) }
    ensures err { IfErr result (λ e. error_in e ≢ Error.OutOfMemory → Begins IsCanonical (Readable (T.reads false true)) 1024 input.now → ⊥) }
    ensures refused { IfErr result (λ e. T.refuses (slice_setting true) 0 0 (Some input.now) (error_in e)) }
    ensures explained { IfErr result (ExplainsRead input.now) }
{
    let mut de = Deserializer::from_read_ref(alloc, input).with_binary();
    de.set_strict(true);
    match T::deserialize(&mut de) {
        Ok(value) => Ok(value),
        Err(error) => Err(explain(&de, error)),
    }
}

// The path to the part that an error refuses, the head that is there, and the name that the error is about.
fn named_part(
    alloc: Global,
    input: &[u8],
    position: usize,
    levels: u32,
    error: &Error,
) -> Result<(Path, Option<Head>, Option<String>), AllocError>
    ensures { IfOk result (λ part. NamesPart input.now position levels error.now part.1 part.2 part.0) }
{
    let part = refused_part(alloc, input, position, levels, error)?;
    let head = head_at(input, part.place);
    let name = found_name(alloc, input, position, error)?;
    Ok((path_of(alloc, input, part)?, head, name))
}

// The part that an error refuses. Where the message itself is broken it is the innermost one, and otherwise so many levels inside.
fn refused_part(
    alloc: Global,
    input: &[u8],
    position: usize,
    levels: u32,
    error: &Error,
) -> Result<Location, AllocError>
    ensures { IfOk result (Refuses input.now position levels error.now) }
{
    let last = position.saturating_sub(1);
    match error {
        Error::InvalidMarkerRead(_) | Error::InvalidDataRead(_) => locate(
            alloc,
            input,
            input.len(),
        ),
        Error::TypeMismatch(Marker::Reserved) => locate(alloc, input, last),
        Error::DepthLimitExceeded | Error::NotCanonical => locate(alloc, input, last),
        Error::TypeMismatch(_) => part_inside(alloc, input, position, levels),
        Error::OutOfRange => part_inside(alloc, input, position, levels),
        Error::LengthMismatch(_) => part_inside(alloc, input, position, levels),
        Error::Uncategorized(_) => part_inside(alloc, input, position, levels),
        Error::Syntax(_) => part_inside(alloc, input, position, levels),
        Error::Utf8Error(_) => part_inside(alloc, input, position, levels),
        Error::OutOfMemory => part_inside(alloc, input, position, levels),
    }
}

// The part at the last byte that was consumed, so many levels inside of the message.
fn part_inside(
    alloc: Global,
    input: &[u8],
    position: usize,
    levels: u32,
) -> Result<Location, AllocError>
    ensures { IfOk result (IsInside input.now position levels) }
{
    let inner = locate(alloc, input, position.saturating_sub(1))?;
    Ok(inner.outward(levels as usize))
}

// The head at an offset, if a whole one is there.
fn head_at(input: &[u8], place: usize) -> Option<Head>
    ensures { BeginsWith (drop place input.now) result }
{
    if place > input.len() {
        return None;
    }
    let mut rest = &input[place..];
    match next_head(&mut rest) {
        Ok((_, head)) => Some(head),
        Err(_) => None,
    }
}

// The name in the message that an error is about, if it is about one that is a text.
fn found_name(
    alloc: Global,
    input: &[u8],
    position: usize,
    error: &Error,
) -> Result<Option<String>, AllocError>
    ensures { IfOk result (FindsName input.now position error.now) }
{
    match error {
        Error::Syntax(Text::DuplicateField) => last_text(alloc, input, position),
        Error::Syntax(Text::UnknownVariant) => last_text(alloc, input, position),
        _ => Ok(None),
    }
}

// The text at the last byte that was consumed, if there is one.
fn last_text(alloc: Global, input: &[u8], position: usize) -> Result<Option<String>, AllocError>
    ensures { IfOk result (FindsText input.now position) }
{
    let inner = locate(alloc, input, position.saturating_sub(1))?;
    text_at(alloc, bytes_from(input, inner.place))
}

// The bytes from an offset on.
fn bytes_from(input: &[u8], offset: usize) -> &[u8]
    ensures { result.now ≡ drop offset input.now }
{
    &input[offset.min(input.len())..]
}

// The text that the bytes begin with, if they begin with one that is UTF-8.
fn text_at(alloc: Global, bytes: &[u8]) -> Result<Option<String>, AllocError>
    ensures { IfOk result (IsTextAt bytes.now) }
{
    let mut rest = bytes;
    match next_head(&mut rest) {
        Ok((_, head)) => text_after(alloc, head, rest),
        Err(_) => Ok(None),
    }
}

// The same of a head, and the bytes after it.
fn text_after(alloc: Global, head: Head, rest: &[u8]) -> Result<Option<String>, AllocError>
    ensures { IfOk result (IsTextAfter head rest.now) }
{
    let Head::Text(len) = head else {
        return Ok(None);
    };
    if rest.len() < len as usize {
        return Ok(None);
    }
    match str::from_utf8(&rest[..len as usize]) {
        Ok(text) => Ok(Some(String::from_str(alloc, text)?)),
        Err(_) => Ok(None),
    }
}

fn kind_of(head: Head) -> Kind
    ensures { result ≡ kind_begun head }
{
    match head {
        Head::Nil => Kind::Nil,
        Head::Truth(_) => Kind::Truth,
        Head::Whole(_) => Kind::Whole,
        Head::F32Bits(_) => Kind::F32,
        Head::F64Bits(_) => Kind::F64,
        Head::Text(_) => Kind::Text,
        Head::Bin(_) => Kind::Bytes,
        Head::Array(_) => Kind::List,
        Head::Map(_) => Kind::Map,
        Head::Ext(_, _) => Kind::Ext,
    }
}

// Whether a list or a map is refused for its parts, all of which are well by themselves.
fn is_for_parts(error: &Error) -> bool
    ensures { result ≡ is_for_parts error.now }
{
    match error {
        Error::LengthMismatch(_) => true,
        Error::Syntax(Text::MissingField(_)) => true,
        Error::Syntax(Text::DuplicateField) => true,
        Error::Syntax(Text::InvalidLength) => true,
        _ => false,
    }
}

/// The line is proved, but for what an error says of a marker or of bytes that are not UTF-8, and for faults of a source.
impl fmt::Display for Explained {
    ghost use Rattle.rmp_serde.specs.ExplainedText.{explained_text};

    ghost output = { explained_text };

    fn fmt<W: fmt::Write>(&self, f: &mut fmt::Formatter<W>) -> fmt::Result {
        write_error(f, &self.error)?;
        write_name(f, self)?;
        match &self.path {
            Some(path) => write_part(f, self, path),
            None => Ok(()),
        }
    }
}

// Writes the error as its own `Display` does.
fn write_error<W: fmt::Write>(f: &mut fmt::Formatter<W>, error: &Error) -> fmt::Result
    ensures writes { DisplaysOnOk W.write_str_gives f.old result (error_text error.now) f.new }
{
    match error {
        Error::InvalidMarkerRead(fault) => {
            f.write_str("IO error while reading marker: ")?;
            write_fault(f, fault.kind())
        }
        Error::InvalidDataRead(fault) => {
            f.write_str("IO error while reading data: ")?;
            write_fault(f, fault.kind())
        }
        Error::TypeMismatch(_) => write!(f, "{error}"),
        Error::OutOfRange => f.write_str("numeric cast found out of range"),
        Error::LengthMismatch(len) => write!(f, "array had incorrect length, expected {len}"),
        Error::Uncategorized(text) => {
            f.write_str("uncategorized error: ")?;
            f.write_str(text.as_str())
        }
        Error::Syntax(text) => f.write_str(text.as_str()),
        Error::Utf8Error(_) => write!(f, "{error}"),
        Error::DepthLimitExceeded => f.write_str("depth limit exceeded"),
        Error::OutOfMemory => f.write_str("out of memory"),
        Error::NotCanonical => f.write_str("not canonical"),
    }
}

// Writes what failed, as the kind's own `Display` does.
fn write_fault<W: fmt::Write>(f: &mut fmt::Formatter<W>, kind: ErrorKind) -> fmt::Result
    ensures writes { DisplaysOnOk W.write_str_gives f.old result (fault_text kind) f.new }
{
    match kind {
        ErrorKind::UnexpectedEof => f.write_str("unexpected end of file"),
        _ => write!(f, "{kind}"),
    }
}

// Writes the name that the error is about.
fn write_name<W: fmt::Write>(f: &mut fmt::Formatter<W>, refused: &Explained) -> fmt::Result
    ensures writes { WritesOnOk W.write_str_gives f.old result (name_text (name_in refused.now)) f.new }
{
    match refused.name() {
        Some(name) => {
            f.write_str(" ")?;
            write_quoted(f, name)
        }
        None => f.write_str(""),
    }
}

// Writes where the refused part is, and what is there.
fn write_part<W: fmt::Write>(
    f: &mut fmt::Formatter<W>,
    refused: &Explained,
    path: &Path,
) -> fmt::Result
    ensures writes { WritesOnOk W.write_str_gives f.old result
        (part_text (is_for_parts (error_in refused.now)) (position_in refused.now) (head_in refused.now) path.now) f.new }
{
    if is_for_parts(&refused.error) {
        write_path(f, " in ", path)?;
        return write!(f, " (byte {})", refused.position);
    }
    write_path(f, " at ", path)?;
    write!(f, " (byte {})", path.place())?;
    match refused.head {
        Some(head) => write_head(f, head),
        None => Ok(()),
    }
}

// Writes a word and the path, unless it is that of the message itself.
fn write_path<W: fmt::Write>(f: &mut fmt::Formatter<W>, word: &str, path: &Path) -> fmt::Result
    ensures writes { WritesOnOk W.write_str_gives f.old result (path_words word.now path.now (steps_of path.now)) f.new }
{
    if path.steps().is_empty() {
        return f.write_str("");
    }
    f.write_str(word)?;
    write!(f, "{path}")
}

// Writes what is there, in words.
fn write_head<W: fmt::Write>(f: &mut fmt::Formatter<W>, head: Head) -> fmt::Result
    ensures writes { WritesOnOk W.write_str_gives f.old result (codes ": " ++ head_words head) f.new }
{
    f.write_str(": ")?;
    match head {
        Head::Nil => f.write_str("nil"),
        Head::Truth(truth) => f.write_str(if truth { "true" } else { "false" }),
        Head::Whole(number) => write!(f, "the integer {number}"),
        Head::F32Bits(_) => f.write_str("a float of 32 bits"),
        Head::F64Bits(_) => f.write_str("a float of 64 bits"),
        Head::Text(len) => {
            f.write_str("a text of ")?;
            write_count(f, len, "byte")
        }
        Head::Bin(len) => {
            f.write_str("bytes, ")?;
            write_count(f, len, "byte")
        }
        Head::Array(len) => {
            f.write_str("a list of ")?;
            write_count(f, len, "element")
        }
        Head::Map(len) => {
            f.write_str("a map of ")?;
            write_count(f, len, "pair")
        }
        Head::Ext(len, tag) => {
            write!(f, "an extension of type {tag}, ")?;
            write_count(f, len, "byte")
        }
    }
}

// Writes a number, and what it counts.
fn write_count<W: fmt::Write>(f: &mut fmt::Formatter<W>, count: u32, what: &str) -> fmt::Result
    ensures writes { WritesOnOk W.write_str_gives f.old result (count_text count what.now) f.new }
{
    write!(f, "{count} {what}")?;
    f.write_str(if count == 1 { "" } else { "s" })
}
