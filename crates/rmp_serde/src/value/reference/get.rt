//! The value of a key in a map.

use crate::value::reference::key::Key;
use crate::value::{Value, ValueRef};

impl Value {
    ghost use Rattle.std.specs.Prelude.{◌≡◌, option_map};
    ghost use Rattle.rmp_serde.specs.Found.{value_of};
    ghost use Rattle.rmp_serde.specs.Parts.{tree};

    /// Returns the value of a key in a map: `root().get(key)`.
    ///
    /// # Examples
    /// ```
    /// use rmp_serde::Value;
    ///
    /// let dog = Value::from_slice(alloc, b"\x82\xa4name\xa5Bobby\xa3age\x08")?;
    /// assert_eq!(rt; dog.get("name").and_then(|name| name.as_str()), Some("Bobby"));
    /// assert_eq!(rt; dog.get("age").and_then(|age| age.as_u64()), Some(8));
    /// assert!(rt; dog.get("colour").is_none());
    /// ```
    pub fn get(&self, key: &str) -> Option<ValueRef<'_>>
        ensures value { option_map tree result ≡ value_of self.now key.now }
    {
        self.root().get(key)
    }
}

impl<'a> ValueRef<'a> {
    ghost use Rattle.std.specs.Prelude.{◌≡◌, ◌<◌, option_map, IfSome};
    ghost use Rattle.rmp_wire.specs.Msg.{depth, text};
    ghost use Rattle.rmp_serde.specs.Equal.{msg_eq};
    ghost use Rattle.rmp_serde.specs.Found.{value_of};
    ghost use Rattle.rmp_serde.specs.Keys.{key_text};
    ghost use Rattle.rmp_serde.specs.Parts.{tree};

    /// Returns the value of the first pair whose key is this text, if it is a map that has one.
    ///
    /// It takes as many steps as there are pairs up to that one. A key of another kind is no text: bytes aren't.
    pub fn get(self, key: &str) -> Option<ValueRef<'a>>
        ensures value { option_map tree result ≡ value_of (tree self.entry) key.now }
        // A part nests less deep than the whole.
        ensures smaller { IfSome result (λ v. depth (tree v) < depth (tree self.entry)) }
    {
        self.value_at(Key::Text(key))
    }

    // The value of the first pair that has the key.
    pub(super) fn value_at(self, key: Key) -> Option<ValueRef<'a>>
        ensures value { option_map tree result ≡ value_of (tree self.entry) (key_text key.entry) }
    {
        for (name, value) in self.pairs() {
            if name.is_key(key) {
                return Some(value);
            }
        }
        None
    }

    // Whether it is the text that the key is.
    fn is_key(self, key: Key) -> bool
        ensures same { result ≡ msg_eq (tree self.entry) (text (key_text key.entry)) }
    {
        match self.as_str() {
            Some(name) => key.is(name),
            None => false,
        }
    }
}
