//! A turn into a list or a map.
ghost use Rattle.std.specs.Prelude.{◌≡◌, ◌<◌, ◌≤◌, ◌+◌, None, IfSome};

use crate::node::Node;

/// A turn into a list or a map: which of its parts comes next on the way to an offset.
///
/// The parts of a list are its elements. Those of a map are its keys and values, in turn.
#[derive(Clone, Copy, Debug)]
pub struct Turn {
    is_map: bool,
    before: u64,
    parts: u64,
    start: usize,
    previous: usize,
}

impl Turn {
    ghost use Rattle.rmp_path.specs.Places.{turn_first, turn_next, is_map_turn, before_of, start_of_part, start_before};

    // The turn to the first part, which begins at `start`.
    pub(crate) fn first(node: Node, start: usize) -> Turn
        ensures { result ≡ turn_first node start }
    {
        Turn {
            is_map: node.is_map,
            before: 0,
            parts: node.parts,
            start,
            previous: start,
        }
    }

    // The turn to the next part, which begins at `start`, if there is one.
    pub(crate) fn next(self, start: usize) -> Option<Turn>
        ensures some { IfSome result (λ t. (t ≡ turn_next self start) × (self.before + 1 < self.parts)) }
        ensures none { result ≡ None → self.parts ≤ self.before + 1 }
    {
        let before = self.before.saturating_add(1);
        if before >= self.parts {
            return None;
        }
        Some(Turn {
            is_map: self.is_map,
            before,
            parts: self.parts,
            start,
            previous: self.start,
        })
    }

    /// Returns whether the turn is into a map, and not into a list.
    pub fn is_map(&self) -> bool
        ensures { result ≡ is_map_turn self.now }
    {
        self.is_map
    }

    /// Returns how many parts come before this one: in a map the keys and the values.
    pub fn before(&self) -> u64
        ensures { result ≡ before_of self.now }
    {
        self.before
    }

    /// Returns the offset where the part begins.
    pub fn start(&self) -> usize
        ensures { result ≡ start_of_part self.now }
    {
        self.start
    }

    /// Returns the offset where the part before it begins: of a value its key. Of the first part it is `start`.
    pub fn previous(&self) -> usize
        ensures { result ≡ start_before self.now }
    {
        self.previous
    }
}
