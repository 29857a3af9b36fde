//! The text of a line that is printed.
ghost use Rattle.std.specs.Prelude.{◌≡◌, ◌≤◌, ◌+◌, ◌*◌, ◌++◌, ◌∷◌, [], length, vec_capacity, OnOk, IfSome};
ghost use Rattle.hex.specs.Hex.{encode_lower};
ghost use Rattle.canon_lines.specs.Texts.{text_bytes};

use std::alloc::{AllocError, Global};
use std::{fmt, mem};

// The digits of the numbers below sixteen.
const DIGITS: &[u8; 16] = b"0123456789abcdef";

// Appends bytes in hex, in lower case, where there is room for them. A vector of its own has its address and its length in
// registers, which takes 10 instructions a byte, and 17 through a reference.
fn with_digits(before: Vec<u8>, bytes: &[u8]) -> Vec<u8>
    requires room { length before.items + 2 * length bytes.now ≤ vec_capacity before }
    ensures hex { result.items ≡ before.items ++ encode_lower bytes.now }
{
    let mut text = before;
    for i in 0..bytes.len() {
        let byte = bytes[i];
        text.push_reserved(DIGITS[(byte / 16) as usize]);
        text.push_reserved(DIGITS[(byte % 16) as usize]);
    }
    text
}

/// The text of a line. Its memory is kept for the next one.
#[derive(Drop)]
pub struct Text {
    bytes: Vec<u8>,
    // the number that was appended last
    digits: Vec<u8>,
}

impl Text {
    /// No text.
    pub fn new(alloc: Global) -> Text
        ensures none { text_bytes result ≡ [] }
    {
        Text {
            bytes: Vec::new(alloc),
            digits: Vec::new(alloc),
        }
    }

    /// The text that was appended so far.
    pub fn as_bytes(&self) -> &[u8]
        ensures text { result.now ≡ text_bytes self.now }
    {
        self.bytes.as_slice()
    }

    // Moves the text out.
    fn take(&mut self) -> Vec<u8>
        ensures taken { result ≡ self.old.bytes }
    {
        let none = Vec::new(*self.bytes.allocator());
        mem::replace(&mut self.bytes, none)
    }

    /// Holds what a value prints, in place of what was held.
    pub fn print<D: fmt::Display + Drop>(&mut self, value: D) -> Result<(), AllocError>
        ensures text { OnOk result (IfSome (D.output value) (λ text. text_bytes self.new ≡ text)) }
    {
        let mut bytes = self.take();
        bytes.clear();
        let mut text = unsafe { String::from_utf8_unchecked(bytes) };
        text.write(value)?;
        self.bytes = text.into_bytes();
        Ok(())
    }

    /// Holds no text.
    pub fn clear(&mut self)
        ensures none { text_bytes self.new ≡ [] }
    {
        self.bytes.clear();
    }

    /// Appends bytes.
    pub fn push(&mut self, bytes: &[u8]) -> Result<(), AllocError>
        ensures text { OnOk result (text_bytes self.new ≡ text_bytes self.old ++ bytes.now) }
    {
        self.bytes.extend_from_slice(bytes)
    }

    /// Appends what a value prints.
    pub fn push_printed<D: fmt::Display + Drop>(&mut self, value: D) -> Result<(), AllocError>
        ensures text { OnOk result (IfSome (D.output value) (λ text. text_bytes self.new ≡ text_bytes self.old ++ text)) }
    {
        let none = Vec::new(*self.digits.allocator());
        let mut digits = mem::replace(&mut self.digits, none);
        digits.clear();
        let mut text = unsafe { String::from_utf8_unchecked(digits) };
        text.write(value)?;
        self.digits = text.into_bytes();
        self.bytes.extend_from_slice(self.digits.as_slice())
    }

    /// Appends bytes in hex, in lower case.
    pub fn push_digits(&mut self, bytes: &[u8]) -> Result<(), AllocError>
        ensures hex { OnOk result (text_bytes self.new ≡ text_bytes self.old ++ encode_lower bytes.now) }
    {
        self.bytes.reserve(2 * bytes.len())?;
        self.bytes = with_digits(self.take(), bytes);
        Ok(())
    }

    /// Appends a space, and bytes in hex, in lower case.
    pub fn push_hex(&mut self, bytes: &[u8]) -> Result<(), AllocError>
        ensures hex { OnOk result (text_bytes self.new ≡ text_bytes self.old ++ 32 ∷ encode_lower bytes.now) }
    {
        self.bytes.push(b' ')?;
        self.push_digits(bytes)?;
        Ok(())
    }

    /// Appends the end of the line.
    pub fn end_line(&mut self) -> Result<(), AllocError>
        ensures ended { OnOk result (text_bytes self.new ≡ text_bytes self.old ++ 10 ∷ []) }
    {
        self.bytes.push(b'\n')?;
        Ok(())
    }
}
