//! The part that a JSON Pointer (RFC 6901) names.
ghost use Rattle.std.specs.Prelude.{◌≡◌, option_map};
ghost use Rattle.rmp_serde.specs.Found.{index_of};

use crate::value::reference::key::Key;
use crate::value::{Kind, Value, ValueRef};

// The index that a token is: digits alone, with no 0 before others.
fn index(token: &str) -> Option<usize>
    ensures index { result ≡ index_of token.now }
{
    if token == "0" {
        return Some(0);
    }
    let first = *token.as_bytes().first()?;
    if first > b'0' {
        token.parse().ok()
    } else {
        None
    }
}

impl Value {
    ghost use Rattle.rmp_serde.specs.Found.{pointed};
    ghost use Rattle.rmp_serde.specs.Parts.{tree};

    /// Returns the part that a JSON Pointer names: `root().pointer(pointer)`.
    ///
    /// # Examples
    /// ```
    /// use rmp_serde::Value;
    ///
    /// // {"dogs": [{"name": "Bobby"}], "a/b": 5}
    /// let value = Value::from_slice(alloc, b"\x82\xa4dogs\x91\x81\xa4name\xa5Bobby\xa3a/b\x05")?;
    /// assert_eq!(rt; value.pointer("/dogs/0/name").and_then(|name| name.as_str()), Some("Bobby"));
    /// assert_eq!(rt; value.pointer("/a~1b").and_then(|number| number.as_u64()), Some(5));
    /// assert!(rt; value.pointer("/dogs/1").is_none());
    /// ```
    pub fn pointer(&self, pointer: &str) -> Option<ValueRef<'_>>
        ensures part { option_map tree result ≡ pointed self.now pointer.now }
    {
        self.root().pointer(pointer)
    }
}

impl<'a> ValueRef<'a> {
    ghost use Rattle.rmp_serde.specs.Found.{pointed, part_named};
    ghost use Rattle.rmp_serde.specs.Parts.{tree};

    /// Returns the part that a JSON Pointer (RFC 6901) names, if there is one.
    ///
    /// The empty pointer names this message itself. Any other is a slash and a token, once or more: `/a/0/b` is the
    /// value of `b` in item 0 of the value of `a`.
    ///
    /// A token names a value by its key, which is a text: the first pair with this key counts. In it `~1` means `/`,
    /// and `~0` means `~`; any other `~` is a `~`. Or a token names an item by its index, in digits, with no 0 before
    /// others.
    pub fn pointer(self, pointer: &str) -> Option<ValueRef<'a>>
        ensures part { option_map tree result ≡ pointed (tree self.entry) pointer.now }
    {
        if pointer.is_empty() {
            return Some(self);
        }
        let mut rest = pointer.strip_prefix('/')?;
        let mut part = self;
        while let Some((token, more)) = rest.split_once('/') {
            part = part.named(token)?;
            rest = more;
        }
        part.named(rest)
    }

    // The part that a token names.
    fn named(self, token: &str) -> Option<ValueRef<'a>>
        ensures part { option_map tree result ≡ part_named (tree self.entry) token.now }
    {
        match self.kind() {
            Kind::List => self.item(index(token)?),
            Kind::Map => self.value_at(Key::Token(token)),
            _ => None,
        }
    }
}
