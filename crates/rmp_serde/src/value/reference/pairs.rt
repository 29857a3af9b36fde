//! The pairs of a map, in order.

use crate::value::ValueRef;
use crate::value::flat::Node;
use crate::value::reference::parts::Parts;

/// An iterator over the pairs of a map, each its key and its value.
///
/// Each step takes constant time, and allocates nothing.
#[derive(Drop)]
pub struct Pairs<'a> {
    parts: Parts<'a>,
}

impl<'a> ValueRef<'a> {
    ghost use Rattle.std.specs.Prelude.{◌≡◌};
    ghost use Rattle.rmp_serde.specs.Parts.{tree};
    ghost use Rattle.rmp_serde.specs.PairsLeft.{pairs_left, pairs_in_turn};

    /// Returns the pairs of a map, each a key and its value. Any other kind has none.
    ///
    /// # Examples
    /// ```
    /// use rmp_serde::Value;
    ///
    /// let ages = Value::from_slice(alloc, b"\x82\xa5Bobby\x08\xa3Rex\x05")?;
    /// let mut sum = 0;
    /// for (name, age) in ages.root().pairs() {
    ///     assert!(rt; name.as_str().is_some());
    ///     sum += age.as_u64().unwrap_or(0);
    /// }
    /// assert_eq!(rt; sum, 13);
    /// ```
    #[tactic(auto, using(crate::proofs::PairsLeft::turn_of_map))]
    pub fn pairs(self) -> Pairs<'a>
        ensures pairs { pairs_left result ≡ pairs_in_turn (tree self.entry) }
    {
        match self.node() {
            Node::Map(_, _) => Pairs {
                parts: self.parts(),
            },
            _ => Pairs {
                parts: self.no_parts(),
            },
        }
    }
}

impl<'a> Iterator for Pairs<'a> {
    ghost use Rattle.std.specs.Iterator.{at_most};
    ghost use Rattle.rmp_serde.specs.PairsLeft.{YieldsPair, steps_left};

    type Item = (ValueRef<'a>, ValueRef<'a>);

    ghost next_gives = { YieldsPair };

    ghost remaining = { λ s. at_most (steps_left s) };

    fn next(&mut self) -> Option<(ValueRef<'a>, ValueRef<'a>)> {
        let key = self.parts.next()?;
        let value = self.parts.next()?;
        Some((key, value))
    }
}
