//! Finds the part that an offset is in.
ghost use Rattle.std.specs.Prelude.{ℕ, List, IfOk};
ghost use Rattle.rmp_path.specs.Places.{Locates, PartEnds, PassesTo, IsOutward};

use crate::node::node_at;
use crate::turn::Turn;
use std::alloc::{AllocError, Global};

/// The part of a message that an offset is in.
#[derive(Debug, Drop)]
pub struct Location {
    /// The offset where the message begins.
    pub message: usize,
    /// The offset where the part begins.
    pub place: usize,
    /// The turns that lead from the message to the part.
    pub turns: Vec<Turn>,
}

impl Location {
    /// Returns the list or the map around the part that is so many levels inside of the message, or the part itself if it has no more.
    pub fn outward(self, levels: usize) -> Location
        ensures { IsOutward levels self result }
    {
        let mut turns = self.turns;
        turns.truncate(levels);
        let place = match turns.last() {
            Some(turn) => turn.start(),
            None => self.message,
        };
        Location {
            message: self.message,
            place,
            turns,
        }
    }
}

/// Finds the part that an offset is in, of messages that follow one another in the input.
///
/// It is the part whose own head or content the offset is in. Where the input ends inside of a head or content, or before a
/// message that is wanted, or where the byte c1 is in the place of a message, and the offset is there or later, it is
/// that part.
///
/// It looks at each head once, and skips content. Its memory is that of the turns.
///
/// # Errors
/// `AllocError` if memory is refused.
pub fn locate(alloc: Global, input: &[u8], offset: usize) -> Result<Location, AllocError>
    ensures { IfOk result (Locates input.now offset) }
{
    let mut turns = Vec::new(alloc);
    let mut message = 0;
    let mut place = 0;
    'nodes: while let Some(node) = node_at(&input[place..]) {
        if offset - place < node.len {
            break;
        }
        place += node.len;
        if node.parts > 0 {
            turns.push(Turn::first(node, place))?;
        } else if !pass_part(&mut turns, place)? {
            message = place;
        }
    }
    Ok(Location {
        message,
        place,
        turns,
    })
}

// Passes a part that ends at `place`, and with it each list and map whose last part ends there. Returns whether a list or a
// map is open then.
pub(crate) fn pass_part(turns: &mut Vec<Turn>, place: usize) -> Result<bool, AllocError>
    ensures { (from rest : List ℕ) (base : ℕ) → PartEnds from base turns.old.items rest place
        → IfOk result (PassesTo from base turns.new.items rest place) }
{
    'ends: while let Some(last) = turns.pop() {
        if let Some(next) = last.next(place) {
            turns.push(next)?;
            return Ok(true);
        }
    }
    Ok(false)
}
