//! A reference to a part of a tree.
ghost use Rattle.std.specs.Prelude.{◌≡◌};
ghost use Rattle.rmp_wire.specs.Spelling.{head_of};
ghost use Rattle.rmp_serde.specs.Flat.{head_in};
ghost use Rattle.rmp_serde.specs.Tokens.{first_tree, row_from};

mod copy;
mod floats;
mod get;
mod key;
mod pairs;
mod parts;
mod pointer;

use crate::value::flat::Node;
use crate::value::{Kind, Value};
pub use pairs::Pairs;
pub use parts::Parts;
use std::alloc::Global;
use std::str;

/// A reference to a part of a tree, or to the whole.
///
/// No call on it allocates: texts and bytes are borrowed from the value.
#[derive(Clone, Copy)]
pub struct ValueRef<'a> {
    value: &'a Value,
    // Its first node, which is the node of its head.
    node: &'a Node,
    // The index of that node: 0 is the root's, and each part's is one more than its index among the parts.
    at: usize,
    ghost head: { head_in node.now ≡ head_of (first_tree (row_from value.now at)) },
}

impl Value {
    ghost use Rattle.std.specs.Prelude.{◌<◌, suc};
    ghost use Rattle.rmp_wire.specs.Msg.{count};
    ghost use Rattle.rmp_serde.specs.Parts.{row_at, tree};
    ghost use Rattle.rmp_serde.specs.Tokens.{past_items};

    /// Returns a reference to the whole tree.
    pub fn root(&self) -> ValueRef<'_>
        ensures whole { tree result ≡ self.now }
    {
        ValueRef {
            value: self,
            node: &self.root,
            at: 0,
        }
    }

    // The part whose first node has an index among those of the parts, and the index after its last node.
    #[inline(always)]
    fn part_at(&self, i: usize) -> (ValueRef<'_>, usize)
        requires there { 0 < count (row_from self.now (suc i)) }
        ensures part { row_at result.0 ≡ row_from self.now (suc i) }
        ensures later { 0 < result.0.at }
        ensures past { row_from self.now (suc result.1) ≡ past_items 1 (row_from self.now (suc i)) }
    {
        let node = &self.parts.nodes[i];
        let part = ValueRef {
            value: self,
            node,
            at: i + 1,
        };
        (part, i + node.takes())
    }
}

impl<'a> ValueRef<'a> {
    ghost use Rattle.std.specs.Prelude.{◌<◌, ◌↔◌, option_map, IfSome, IsTrue};
    ghost use Rattle.std.specs.Str.{IsUtf8};
    ghost use Rattle.rmp_wire.specs.Msg.{depth, count, nil};
    ghost use Rattle.rmp_serde.specs.Tokens.{past_items};
    ghost use Rattle.rmp_serde.specs.Parts.{row_at, row_after, content_of, parts_of, tree, kind_of, parts_count, item_of, pair_of};
    ghost use Rattle.rmp_serde.specs.Parts.{truth_of, whole_of, natural_of, signed_of, float32_of, float64_of, text_of, bytes_of, extension_of};

    // Its first node, which is the node of its head.
    #[inline(always)]
    pub(super) fn node(self) -> Node
        ensures head { head_in result ≡ head_of (tree self.entry) }
    {
        *self.node
    }

    // The content of a text, of bytes or of an extension.
    pub(super) fn content(self) -> &'a [u8]
        ensures content { result.now ≡ content_of (tree self.entry) }
        ensures utf8 { IfSome (text_of (tree self.entry)) IsUtf8 }
    {
        let value = self.value;
        value.parts.content(value.parts.node(value.root, self.at))
    }

    // The allocator of the value.
    pub(super) fn alloc(self) -> Global {
        let value = self.value;
        *value.parts.nodes.allocator()
    }

    // The part of a list or a map at an index, which starts at 0.
    fn part(self, i: usize) -> ValueRef<'a>
        requires there { i < parts_of (tree self) }
        ensures part { row_at result ≡ past_items i (row_after self.entry) }
        ensures later { 0 < result.at }
    {
        let value = self.value;
        value.part_at(value.parts.past(self.at, i)).0
    }

    // The message after this one, which must be a part.
    fn next(self) -> ValueRef<'a>
        requires part { 0 < self.at }
        requires there { 1 < count (row_at self) }
        ensures next { row_at result ≡ past_items 1 (row_at self.entry) }
        ensures later { 0 < result.at }
    {
        let value = self.value;
        value.part_at(value.part_at(self.at - 1).1).0
    }

    /// Returns the kind of message.
    pub fn kind(self) -> Kind
        ensures kind { result ≡ kind_of (tree self.entry) }
    {
        match self.node() {
            Node::Nil => Kind::Nil,
            Node::Truth(_) => Kind::Truth,
            Node::Unsigned(_) | Node::Signed(_) => Kind::Whole,
            Node::F32(_) => Kind::F32,
            Node::F64(_) => Kind::F64,
            Node::Text(_, _) => Kind::Text,
            Node::Bytes(_, _) => Kind::Bytes,
            Node::List(_, _) => Kind::List,
            Node::Map(_, _) => Kind::Map,
            Node::Ext(_, _, _) => Kind::Ext,
        }
    }

    /// Returns whether it is nil.
    pub fn is_nil(self) -> bool
        ensures nil { IsTrue result ↔ (tree self.entry ≡ nil) }
    {
        self.kind() == Kind::Nil
    }

    /// Returns the truth value, if it is one.
    pub fn as_bool(self) -> Option<bool>
        ensures truth { result ≡ truth_of (tree self.entry) }
    {
        match self.node() {
            Node::Truth(truth) => Some(truth),
            _ => None,
        }
    }

    /// Returns the whole number, if it is one: from -9223372036854775808 to 18446744073709551615.
    pub fn as_whole(self) -> Option<i128>
        ensures number { result ≡ whole_of (tree self.entry) }
    {
        match self.node() {
            Node::Unsigned(number) => Some(i128::from(number)),
            Node::Signed(number) => Some(i128::from(number)),
            _ => None,
        }
    }

    /// Returns the whole number, if it is one from 0 on.
    pub fn as_u64(self) -> Option<u64>
        ensures number { result ≡ natural_of (tree self.entry) }
    {
        match self.node() {
            Node::Unsigned(number) => Some(number),
            Node::Signed(number) => u64::try_from(number).ok(),
            _ => None,
        }
    }

    /// Returns the whole number, if it is one up to 9223372036854775807.
    pub fn as_i64(self) -> Option<i64>
        ensures number { result ≡ signed_of (tree self.entry) }
    {
        match self.node() {
            Node::Unsigned(number) => i64::try_from(number).ok(),
            Node::Signed(number) => Some(number),
            _ => None,
        }
    }

    /// Returns the bits of a 32-bit float, if it is one. A 64-bit float isn't.
    pub fn as_f32_bits(self) -> Option<u32>
        ensures bits { result ≡ float32_of (tree self.entry) }
    {
        match self.node() {
            Node::F32(bits) => Some(bits),
            _ => None,
        }
    }

    /// Returns the bits of a 64-bit float, if it is one. A 32-bit float isn't.
    pub fn as_f64_bits(self) -> Option<u64>
        ensures bits { result ≡ float64_of (tree self.entry) }
    {
        match self.node() {
            Node::F64(bits) => Some(bits),
            _ => None,
        }
    }

    /// Returns the text, if it is one.
    pub fn as_str(self) -> Option<&'a str>
        ensures text { option_map (λ s. s.now) result ≡ text_of (tree self.entry) }
    {
        match self.node() {
            Node::Text(_, _) => {
                // Every text of a value is UTF-8.
                Some(unsafe { str::from_utf8_unchecked(self.content()) })
            }
            _ => None,
        }
    }

    /// Returns the bytes, if it is of that kind. An extension isn't.
    pub fn as_bytes(self) -> Option<&'a [u8]>
        ensures bytes { option_map (λ s. s.now) result ≡ bytes_of (tree self.entry) }
    {
        match self.node() {
            Node::Bytes(_, _) => Some(self.content()),
            _ => None,
        }
    }

    /// Returns the extension's type and its bytes, if it is one.
    pub fn as_ext(self) -> Option<(i8, &'a [u8])>
        ensures extension { option_map (λ e. (e.0, e.1.now)) result ≡ extension_of (tree self.entry) }
    {
        match self.node() {
            Node::Ext(tag, _, _) => Some((tag, self.content())),
            _ => None,
        }
    }

    /// Returns the number of items of a list or of pairs of a map, and 0 for any other kind.
    pub fn len(self) -> usize
        ensures count { result ≡ parts_count (tree self.entry) }
    {
        match self.node() {
            Node::List(len, _) | Node::Map(len, _) => len as usize,
            _ => 0,
        }
    }

    /// Returns the item of a list at an index, if there is one. Indexes start at 0.
    pub fn item(self, i: usize) -> Option<ValueRef<'a>>
        ensures item { option_map tree result ≡ item_of (tree self.entry) i }
        // A part nests less deep than the whole.
        ensures smaller { IfSome result (λ v. depth (tree v) < depth (tree self.entry)) }
    {
        match self.node() {
            Node::List(len, _) => {
                if i < len as usize {
                    Some(self.part(i))
                } else {
                    None
                }
            }
            _ => None,
        }
    }

    /// Returns the key and the value of a map's pair at an index, if there is one. Indexes start at 0.
    pub fn pair(self, i: usize) -> Option<(ValueRef<'a>, ValueRef<'a>)>
        ensures pair { option_map (λ p. (tree p.0, tree p.1)) result ≡ pair_of (tree self.entry) i }
        // A part nests less deep than the whole.
        ensures smaller_key { IfSome result (λ p. depth (tree p.0) < depth (tree self.entry)) }
        ensures smaller_value { IfSome result (λ p. depth (tree p.1) < depth (tree self.entry)) }
    {
        match self.node() {
            Node::Map(len, _) => {
                if i < len as usize {
                    let key = self.part(2 * i);
                    Some((key, key.next()))
                } else {
                    None
                }
            }
            _ => None,
        }
    }
}
