//! The bytes of texts, which needn't be UTF-8.
ghost use Rattle.std.specs.Prelude.{◌≡◌, IsUtf8};
ghost use Rattle.std.specs.Str.{valid_up_to};
ghost use Rattle.std.specs.Str.Lossy.{utf8_valid_len};

mod borrowed;
mod owned;

use std::str::Utf8Error;

/// The bytes of a text, which needn't be UTF-8. Two are equal exactly if their bytes are.
///
/// Bytes that are UTF-8 are written as a text, and all others as bytes. It is read from a text or from bytes.
#[derive(Debug, Drop)]
pub struct Raw {
    content: Content,
}

#[derive(Debug, Drop)]
enum Content {
    Text(String),
    Other(Other),
}

// Bytes that aren't UTF-8, and why.
#[derive(Debug, Drop)]
struct Other {
    bytes: Vec<u8>,
    error: Utf8Error,
    ghost invalid: { IsUtf8 bytes.items → ⊥ },
    ghost place: { valid_up_to error ≡ utf8_valid_len bytes.items },
}

/// The borrowed bytes of a text, which needn't be UTF-8. Two are equal exactly if their bytes are.
///
/// Bytes that are UTF-8 are written as a text, and all others as bytes. It is read from a text or from bytes,
/// and only from input that can be borrowed.
#[derive(Clone, Copy, Debug)]
pub struct RawRef<'a> {
    content: ContentRef<'a>,
}

#[derive(Clone, Copy, Debug)]
enum ContentRef<'a> {
    Text(&'a str),
    Other(OtherRef<'a>),
}

// Bytes that aren't UTF-8, and why.
#[derive(Clone, Copy, Debug)]
struct OtherRef<'a> {
    bytes: &'a [u8],
    error: Utf8Error,
    ghost invalid: { IsUtf8 bytes.now → ⊥ },
    ghost place: { valid_up_to error ≡ utf8_valid_len bytes.now },
}
