//! A message of any kind, as a tree.
mod clone;
mod convert;
mod equal;
pub(crate) mod flat;
mod kind;
mod leaves;
mod lists;
mod push;
mod read;
mod reference;
mod round_trip;
pub(crate) mod text;
mod write;

ghost use Rattle.std.specs.Prelude.{◌≡◌, ◌≤◌, ◌+◌, length, ◌∷◌};
ghost use Rattle.rmp_wire.specs.Heads.{fits_head};
ghost use Rattle.rmp_decode.specs.Kinds.{content_len};
ghost use Rattle.rmp_serde.specs.Flat.{content_at, heads_of, told_tree, IsTree, IsWithin};

pub use convert::{from_value, to_value, to_value_named};
use flat::{Node, Nodes};
pub use kind::Kind;
pub use read::read_value;
pub use reference::{Pairs, Parts, ValueRef};
use rmp_wire::Head;
use std::marker::Model;
pub use text::Readable;

/// A message of any kind, as a tree.
///
/// Of `let value: Value = from_slice(alloc, b"\x92\xcd\x00\x05\xc0")?` the `root()` is a list, whose `item(0)`
/// is the number 5; `to_vec(alloc, &value)` is `92 05 c0`. `get` finds the value of a key, and `pointer` a part by a
/// path as `/dogs/0/name`. An equal value is made by
/// `Value::from_items(alloc, &[Value::from_u64(alloc, 5), Value::nil(alloc)])?`, and `push` and `push_pair` add to a
/// list or a map. `to_value` makes one of any type, and `from_value` reads the type from it.
///
/// Contracts see it as the message tree itself. Each length and number has room in a head (`Fits`), and each
/// text is UTF-8.
///
/// In memory it is one vector of nodes, in the order of the encoding, and one buffer for all content.
#[derive(Drop)]
pub struct Value {
    pub(crate) root: Node,
    pub(crate) parts: Nodes,
}

impl Model for Value {
    ghost use Rattle.rmp_wire.specs.Msg.{Msg};
    ghost use Rattle.rmp_wire.specs.Stored.{msg_code};

    ghost Value = { Msg };

    ghost coded = { msg_code };

    ghost use Rattle.rmp_serde.specs.Flat.{heads_all, told_tree, IsFlat};

    ghost view = { λ a. told_tree (heads_all a.root a.parts) };

    ghost invariant = { λ a. IsFlat a.root a.parts };
}

impl Value {
    // The message of these heads: that of the root, and those of its parts.
    pub(crate) fn from_parts(head: Head, at: usize, parts: Nodes) -> Value
        requires fits { fits_head head }
        requires starts { at + content_len head ≤ length parts.bytes.items }
        requires within { IsWithin parts }
        requires told { IsTree (content_at parts head at ∷ heads_of parts) }
        ensures told { result ≡ told_tree (content_at parts head at ∷ heads_of parts) }
    {
        let root = Node::new(head, at);
        let mut told = parts;
        told.settle();
        Value { root, parts: told }
    }
}
