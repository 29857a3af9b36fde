//! The parts of a list or a map, in order.
ghost use Rattle.std.specs.Prelude.{◌≡◌, ◌≤◌, suc};
ghost use Rattle.rmp_wire.specs.Msg.{count};
ghost use Rattle.rmp_serde.specs.Tokens.{row_from};

use crate::value::{Value, ValueRef};

/// An iterator over the items of a list, or over the keys and values of a map in turn.
///
/// Each step takes constant time, and allocates nothing.
#[derive(Drop)]
pub struct Parts<'a> {
    value: &'a Value,
    // The index of the next part's first node among those of all parts.
    at: usize,
    left: usize,
    ghost there: { left ≤ count (row_from value.now (suc at)) },
}

impl<'a> ValueRef<'a> {
    ghost use Rattle.std.specs.Prelude.{[]};
    ghost use Rattle.rmp_serde.specs.Parts.{tree, parts_in_turn};
    ghost use Rattle.rmp_serde.specs.PartsLeft.{parts_left};

    // No parts at all.
    pub(super) fn no_parts(self) -> Parts<'a>
        ensures none { parts_left result ≡ [] }
    {
        Parts {
            value: self.value,
            at: self.at,
            left: 0,
        }
    }

    /// Returns the items of a list, or the keys and values of a map in turn: each key, and then its value. Any
    /// other kind has none.
    ///
    /// # Examples
    /// ```
    /// use rmp_serde::Value;
    ///
    /// let list = Value::from_slice(alloc, b"\x93\x01\x02\x04")?;
    /// let mut sum = 0;
    /// for item in list.root().parts() {
    ///     sum += item.as_u64().unwrap_or(0);
    /// }
    /// assert_eq!(rt; sum, 7);
    /// ```
    pub fn parts(self) -> Parts<'a>
        ensures parts { parts_left result ≡ parts_in_turn (tree self.entry) }
    {
        let left = self.node().parts();
        Parts {
            value: self.value,
            at: self.at,
            left,
        }
    }
}

impl<'a> Iterator for Parts<'a> {
    ghost use Rattle.std.specs.Iterator.{at_most};
    ghost use Rattle.rmp_serde.specs.PartsLeft.{YieldsPart};

    type Item = ValueRef<'a>;

    ghost next_gives = { YieldsPart };

    ghost remaining = { λ s. at_most s.left };

    fn next(&mut self) -> Option<ValueRef<'a>> {
        if self.left == 0 {
            return None;
        }
        let (part, past) = self.value.part_at(self.at);
        self.at = past;
        self.left -= 1;
        Some(part)
    }
}
