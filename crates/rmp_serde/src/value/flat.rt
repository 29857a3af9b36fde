//! A message as nodes in the order of its encoding, and one buffer for their content.
ghost use Rattle.std.specs.Prelude.{◌≡◌, ◌≤◌, ◌+◌, ◌++◌, ◌<◌, ℕ, List, [], ◌∷◌, length, take, drop, get_or, OnOk, vec_len, vec_capacity};
ghost use Rattle.rmp_wire.specs.Heads.{fits_head};
ghost use Rattle.rmp_decode.specs.Kinds.{content_len};
ghost use Rattle.rmp_wire.specs.Msg.{count as many};
ghost use Rattle.rmp_serde.specs.Flat.{content_at, head_in, heads_of, takes_in, takes_then, is_leaf, parts_in, content_in, IsWithin, EndsBy, IsRow, AllTake, span};
ghost use Rattle.rmp_serde.specs.Tokens.{built};
ghost use Rattle.rmp_serde.specs.declared.value.flat.Node.TheVariants as nodes;

use rmp_wire::Head;
use std::alloc::{AllocError, Global};

/// A head, with the place of its content or the number of its nodes.
#[derive(Clone, Copy)]
pub(crate) enum Node {
    Nil,
    Truth(bool),
    /// A number from 0 on.
    Unsigned(u64),
    /// A number below 0.
    Signed(i64),
    F32(u32),
    F64(u64),
    /// How long a text is, and its offset in the buffer.
    Text(u32, usize),
    /// How many bytes there are, and their offset in the buffer.
    Bytes(u32, usize),
    /// An extension's type, how many bytes it has, and their offset in the buffer.
    Ext(i8, u32, usize),
    /// How many items a list has, and how many nodes the list takes, with all that is nested in it. The second
    /// isn't set for a value's root.
    List(u32, usize),
    /// How many pairs a map has, and how many nodes the map takes, as for a list.
    Map(u32, usize),
}

impl Node {
    /// Makes a node of a head whose content begins at an offset. How many nodes a list or a map takes isn't set
    /// yet.
    #[inline(always)]
    #[tactic(auto, unfolding(rmp_wire::specs::Heads::fits_head))]
    pub(crate) fn new(head: Head, at: usize) -> Node
        requires fits { fits_head head }
        ensures head { head_in result ≡ head }
        ensures content { (buffer : List ℕ) → content_in buffer result ≡ take (content_len head) (drop at buffer) }
        ensures within { (end : ℕ) → at + content_len head ≤ end → EndsBy end result }
    {
        match head {
            Head::Nil => Node::Nil,
            Head::Truth(truth) => Node::Truth(truth),
            Head::Whole(number) => {
                if number >= 0 {
                    Node::Unsigned(number as u64)
                } else {
                    Node::Signed(number as i64)
                }
            }
            Head::F32Bits(bits) => Node::F32(bits),
            Head::F64Bits(bits) => Node::F64(bits),
            Head::Text(len) => Node::Text(len, at),
            Head::Bin(len) => Node::Bytes(len, at),
            Head::Array(len) => Node::List(len, 1),
            Head::Map(len) => Node::Map(len, 1),
            Head::Ext(len, tag) => Node::Ext(tag, len, at),
        }
    }

    /// Returns the head of the node.
    #[inline(always)]
    #[tactic(auto, unfolding(rmp_wire::specs::Heads::fits_head))]
    pub(crate) fn head(self) -> Head
        ensures head { result ≡ head_in self }
        ensures fits { fits_head result }
    {
        match self {
            Node::Nil => Head::Nil,
            Node::Truth(truth) => Head::Truth(truth),
            Node::Unsigned(number) => Head::Whole(i128::from(number)),
            Node::Signed(number) => Head::Whole(i128::from(number)),
            Node::F32(bits) => Head::F32Bits(bits),
            Node::F64(bits) => Head::F64Bits(bits),
            Node::Text(len, _) => Head::Text(len),
            Node::Bytes(len, _) => Head::Bin(len),
            Node::List(len, _) => Head::Array(len),
            Node::Map(len, _) => Head::Map(len),
            Node::Ext(tag, len, _) => Head::Ext(len, tag),
        }
    }

    /// Returns how many nodes the message takes, with all that is nested in it.
    #[inline(always)]
    pub(crate) fn takes(self) -> usize
        ensures takes { result ≡ takes_in self }
    {
        match self {
            Node::List(_, takes) | Node::Map(_, takes) => takes,
            _ => 1,
        }
    }

    /// Returns how many messages a list or a map contains; each pair of a map counts as two.
    pub(crate) fn parts(self) -> usize
        ensures parts { result ≡ parts_in self }
    {
        match self {
            Node::List(len, _) => len as usize,
            Node::Map(len, _) => 2 * len as usize,
            _ => 0,
        }
    }

    // Whether nothing can be nested in it: it is no list and no map.
    #[inline(always)]
    fn is_leaf(self) -> bool
        ensures leaf { result ≡ is_leaf self }
    {
        match self {
            Node::List(_, _) | Node::Map(_, _) => false,
            _ => true,
        }
    }

    /// Returns the node, where a list or a map takes `count` nodes.
    pub(crate) fn taking(self, count: usize) -> Node
        ensures head { head_in result ≡ head_in self }
        ensures content { (buffer : List ℕ) → content_in buffer result ≡ content_in buffer self }
        ensures within { (end : ℕ) → EndsBy end self → EndsBy end result }
        ensures takes { takes_in result ≡ takes_then count self }
    {
        match self {
            Node::List(len, _) => Node::List(len, count),
            Node::Map(len, _) => Node::Map(len, count),
            node => node,
        }
    }
}

// The number of nodes that there is room for once there is one.
const FIRST_NODES: usize = 16;

// The number of bytes of content that there is room for once a part has some.
const FIRST_BYTES: usize = 64;

/// Nodes while they are made.
#[derive(Drop)]
pub(crate) struct Nodes {
    pub(crate) nodes: Vec<Node>,
    pub(crate) bytes: Vec<u8>,
}

impl Nodes {
    /// Makes an empty row of nodes.
    pub(crate) fn new(alloc: Global) -> Nodes
        ensures none { heads_of result ≡ [] }
        ensures empty { result.bytes.items ≡ [] }
        ensures within { IsWithin result }
    {
        Nodes {
            nodes: Vec::new(alloc),
            bytes: Vec::new(alloc),
        }
    }

    // Allocates room for one more node. The first time it is room for several, so that the nodes of a short
    // message are never moved. If that fails, less is tried.
    #[inline(never)]
    fn grow(&mut self) -> Result<(), AllocError>
        ensures nodes { self.new.nodes.items ≡ self.old.nodes.items }
        ensures bytes { self.new.bytes ≡ self.old.bytes }
        ensures room { OnOk result (vec_len self.new.nodes < vec_capacity self.new.nodes) }
    {
        if self.nodes.is_empty() && self.nodes.reserve(FIRST_NODES).is_ok() {
            return Ok(());
        }
        self.nodes.reserve(1)
    }

    // Makes room for one more node, if there is none.
    #[inline(always)]
    fn make_room(&mut self) -> Result<(), AllocError>
        ensures nodes { self.new.nodes.items ≡ self.old.nodes.items }
        ensures bytes { self.new.bytes ≡ self.old.bytes }
        ensures room { OnOk result (vec_len self.new.nodes < vec_capacity self.new.nodes) }
    {
        if self.nodes.len() < self.nodes.capacity() {
            return Ok(());
        }
        self.grow()
    }

    /// Makes room for the first content of parts, if this head is followed by some, and for more of it. If that
    /// allocation fails, the content itself asks for less.
    #[inline(always)]
    pub(crate) fn make_room_for_content(&mut self, head: Head)
        ensures nodes { self.new.nodes ≡ self.old.nodes }
        ensures bytes { self.new.bytes.items ≡ self.old.bytes.items }
    {
        match head {
            Head::Text(len) | Head::Bin(len) | Head::Ext(len, _) => {
                if len > 0 && self.bytes.capacity() == 0 {
                    let _made = self.bytes.reserve(FIRST_BYTES);
                }
            }
            _ => {}
        }
    }

    /// Adds a head, whose content is already in the buffer, from an offset on.
    #[tactic(auto, using(crate::proofs::FlatMade::made_of))]
    pub(crate) fn push(&mut self, head: Head, at: usize) -> Result<(), AllocError>
        requires fits { fits_head head }
        requires starts { at + content_len head ≤ length self.old.bytes.items }
        requires within { IsWithin self.old }
        ensures ok { OnOk result (heads_of self.new ≡ heads_of self.old ++ content_at self.old head at ∷ []) }
        ensures bytes { self.new.bytes ≡ self.old.bytes }
        ensures within { IsWithin self.new }
    {
        self.make_room()?;
        self.nodes.push_reserved(Node::new(head, at));
        Ok(())
    }

    /// Returns the index after `count` messages that begin at an index.
    pub(crate) fn past(&self, at: usize, count: usize) -> usize
        requires row { IsRow (drop at (heads_of self.now)) }
        requires takes { AllTake self.now.bytes.items (drop at self.now.nodes.items) }
        requires parts { count ≤ many (built (drop at (heads_of self.now))) }
        ensures place { result ≡ at + span count (drop at (heads_of self.now)) }
    {
        let mut place = at;
        for _ in 0..count {
            place += self.nodes[place].takes();
        }
        place
    }

    /// Sets how many nodes each list and each map takes.
    pub(crate) fn settle(&mut self)
        requires row { IsRow (heads_of self.old) }
        requires within { IsWithin self.old }
        ensures heads { heads_of self.new ≡ heads_of self.old }
        ensures bytes { self.new.bytes ≡ self.old.bytes }
        ensures takes { AllTake self.new.bytes.items self.new.nodes.items }
        ensures within { IsWithin self.new }
    {
        let mut at = self.nodes.len();
        while at > 0 {
            at -= 1;
            let node = self.nodes[at];
            if node.is_leaf() {
                continue;
            }
            let end = self.past(at + 1, node.parts());
            self.nodes[at] = node.taking(end - at);
        }
    }

    /// Returns the node at an index. The root comes before all of them, and nil is returned past the last one.
    #[inline(always)]
    pub(crate) fn node(&self, root: Node, at: usize) -> Node
        ensures node { result ≡ get_or (root ∷ self.now.nodes.items) at nodes.Nil }
    {
        if at == 0 {
            root
        } else if at <= self.nodes.len() {
            self.nodes[at - 1]
        } else {
            Node::Nil
        }
    }

    /// Returns the content of a node.
    #[inline(always)]
    pub(crate) fn content(&self, node: Node) -> &[u8]
        requires within { EndsBy (length self.now.bytes.items) node }
        ensures content { result.now ≡ content_in self.now.bytes.items node }
    {
        match node {
            Node::Text(len, at) | Node::Bytes(len, at) | Node::Ext(_, len, at) => {
                &self.bytes[at..at + len as usize]
            }
            _ => &[],
        }
    }
}
