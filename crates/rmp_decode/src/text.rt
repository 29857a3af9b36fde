//! Why something was refused, in words.
ghost use Rattle.std.specs.Prelude.{◌≡◌, ◌≤◌, length};

use std::fmt::{Debug, Display};
use std::{fmt, str};

/// Why something was refused, in words: one of the reader's texts, or a type's own.
///
/// A type's own text, and the name of a missing field, have at most 30 bytes, which are part of the value, so that no error
/// allocates memory.
#[derive(Clone, Copy)]
pub enum Text {
    /// An earlier read from this reader failed.
    FailedBefore,
    /// The message is of a kind that the type doesn't read.
    InvalidType,
    /// The message is of the right kind, but is no value of the type.
    InvalidValue,
    /// The number of elements isn't that of the type.
    InvalidLength,
    /// No variant has this name or place.
    UnknownVariant,
    /// A field is there twice.
    DuplicateField,
    /// A field is missing that has no value for that. It has this name, or a longer one that begins so.
    MissingField(OwnText),
    /// The name is that of extensions, which `deserialize_ext` reads.
    ReadByExt,
    /// A type's own text.
    Own(OwnText),
}

// A byte that no UTF-8 text has. It follows a text of fewer than 30 bytes.
const NO_TEXT: u8 = 0xff;

/// A short text in an error: the longest prefix of its bytes that is UTF-8.
///
/// The length isn't stored: each result of a read has room for an error, and one of 32 bytes is copied in fewer
/// instructions than one of 33.
#[derive(Clone, Copy)]
pub struct OwnText {
    bytes: [u8; 30],
}

impl OwnText {
    ghost use Rattle.rmp_decode.specs.Words.{own_words, fitting};

    fn new(text: &str) -> OwnText
        requires { length text.now ≤ 30 }
        ensures { own_words result ≡ text.now }
    {
        let mut bytes = [NO_TEXT; 30];
        bytes[..text.len()].copy_from_slice(text.as_bytes());
        OwnText { bytes }
    }

    // As much of a text as fits: its longest prefix of at most 30 bytes that is UTF-8.
    pub(crate) fn cut(text: &str) -> OwnText
        ensures { own_words result ≡ fitting text.now }
    {
        if text.len() <= 30 {
            return OwnText::new(text);
        }
        let mut bytes = [NO_TEXT; 30];
        bytes.copy_from_slice(&text.as_bytes()[..30]);
        OwnText { bytes }
    }

    pub(crate) fn as_str(&self) -> &str
        ensures { result.now ≡ own_words self.now }
    {
        match str::from_utf8(&self.bytes) {
            Ok(words) => words,
            Err(e) => str::from_utf8(&self.bytes[..e.valid_up_to()]).unwrap(),
        }
    }
}

impl Text {
    ghost use Rattle.rmp_decode.specs.Words.{words};

    /// Makes a type's own text, of at most 30 bytes.
    pub fn new(text: &str) -> Text
        requires { length text.now ≤ 30 }
        ensures { words result ≡ text.now }
    {
        Text::Own(OwnText::new(text))
    }

    /// Returns the words.
    pub fn as_str(&self) -> &str
        ensures { result.now ≡ words self.now }
    {
        match self {
            Text::FailedBefore => "failed before",
            Text::InvalidType => "invalid type",
            Text::InvalidValue => "invalid value",
            Text::InvalidLength => "invalid length",
            Text::UnknownVariant => "unknown variant",
            Text::DuplicateField => "duplicate field",
            Text::MissingField(_) => "missing field",
            Text::ReadByExt => "extensions are read by deserialize_ext",
            Text::Own(own) => own.as_str(),
        }
    }
}

impl Display for Text {
    fn fmt<W: fmt::Write>(&self, f: &mut fmt::Formatter<W>) -> fmt::Result {
        f.write_str(self.as_str())
    }
}

impl Debug for Text {
    fn fmt<W: fmt::Write>(&self, f: &mut fmt::Formatter<W>) -> fmt::Result {
        write!(f, "{:?}", self.as_str())
    }
}
