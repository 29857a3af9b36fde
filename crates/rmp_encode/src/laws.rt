//! Laws of writing, over its contracts. Each is the contract of a function that does nothing.
ghost use Rattle.std.specs.Prelude.{Bool, Option};
ghost use Rattle.std.specs.Io.KnownBytes.{Appends};
ghost use Rattle.rmp_wire.specs.Msg.{Msg};
ghost use Rattle.rmp_encode.specs.Calls.{IsSpelled};
ghost use Rattle.rmp_encode.specs.Going.{done};
ghost use Rattle.rmp_encode.specs.Laws.{ListsAlike, MapsAlike};
ghost use Rattle.rmp_encode.specs.Trees.{spell};
ghost use Rattle.rmp_encode.specs.Writes.{WritesTree};

use rmp_wire::Sink;
use rmp_wire::config::SerializerConfig;

/// The same elements give the same bytes under the same settings, whether or not their number was known at the
/// opening.
///
/// The law asks nothing of how either list or map was opened: both openings promise the same of the open list
/// or map, and `end` promises the rest.
pub fn known_and_unknown_lengths<W: Sink, C: SerializerConfig>()
    ensures lists { ListsAlike W.row C.row W.Sink }
    ensures maps { MapsAlike W.row C.row W.Sink }
{}

/// What a call appends that promises in `writes` to append the canonical encoding of a tree is an encoding of that tree alone, and no
/// encoding of the tree is shorter. So it is for `Serialize::serialize`, and for the `end` of a tuple, a list and a map.
pub fn written_is_canonical<W: Sink>()
    ensures { (m : Bool) (t : Option Msg) (old new : W) → WritesTree W.Sink m t old new done
        → IsSpelled t (spell t) × Appends (W.told old) (W.told new) (spell t) }
{}
