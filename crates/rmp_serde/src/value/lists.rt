//! Makes lists and maps of copies of values.
ghost use Rattle.std.specs.Prelude.{◌≡◌, ℕ, ◌+◌, ◌<◌, ◌++◌, ◌∷◌, [], length, take, drop, OnOk, IfOk, IfErr};
ghost use Rattle.rmp_wire.specs.Msg.{list, map, msgs, pairs};
ghost use Rattle.rmp_serde.specs.Flat.{heads_all, heads_of, token_in, EndsBy, IsWithin};
ghost use Rattle.rmp_serde.specs.Making.{MakeFails};

use crate::value::Value;
use crate::value::flat::{Node, Nodes};
use crate::value::leaves::head_len;
use rmp_encode::Error;
use rmp_wire::Head;
use std::alloc::{AllocError, Global};

impl Nodes {
    // Adds a copy of a node of another row, with its content.
    fn add(&mut self, node: Node, from: &Nodes) -> Result<(), AllocError>
        requires within { IsWithin self.old }
        requires content { EndsBy (length from.now.bytes.items) node }
        ensures ok { OnOk result (heads_of self.new ≡ heads_of self.old ++ token_in from.now.bytes.items node ∷ []) }
        ensures within { OnOk result (IsWithin self.new) }
    {
        let at = self.bytes.len();
        self.bytes.extend_from_slice(from.content(node))?;
        self.push(node.head(), at)
    }

    // Adds copies of so many nodes of another row, from an index on.
    pub(crate) fn add_some(
        &mut self,
        from: &Nodes,
        at: usize,
        count: usize,
    ) -> Result<(), AllocError>
        requires within { IsWithin self.old }
        requires content { IsWithin from.now }
        requires there { (i : ℕ) → i < count → at + i < length from.now.nodes.items }
        ensures ok { OnOk result (heads_of self.new ≡ heads_of self.old ++ take count (drop at (heads_of from.now))) }
        ensures within { OnOk result (IsWithin self.new) }
    {
        for i in 0..count {
            self.add(from.nodes[at + i], from)?;
        }
        Ok(())
    }

    // Adds a copy of a message: its root, and the nodes of its parts.
    fn add_all(&mut self, root: Node, parts: &Nodes) -> Result<(), AllocError>
        requires within { IsWithin self.old }
        requires root { EndsBy (length parts.now.bytes.items) root }
        requires parts { IsWithin parts.now }
        ensures ok { OnOk result (heads_of self.new ≡ heads_of self.old ++ heads_all root parts.now) }
        ensures within { OnOk result (IsWithin self.new) }
    {
        self.add(root, parts)?;
        self.add_some(parts, 0, parts.nodes.len())
    }
}

impl Value {
    /// Makes a list of copies of the items.
    ///
    /// # Errors
    /// `InvalidDataModel` for 2 ^ 32 items or more, and otherwise `OutOfMemory`.
    ///
    /// # Examples
    /// ```
    /// use rmp_serde::{Value, to_vec};
    ///
    /// let list = Value::from_items(alloc, &[Value::from_u64(alloc, 5), Value::from_text(alloc, "a")?])?;
    /// assert_eq!(rt; to_vec(alloc, &list)?.as_slice(), [0x92, 0x05, 0xa1, 0x61].as_slice());
    /// ```
    #[tactic(auto, unfolding(rmp_wire::specs::Heads::fits_head))]
    pub fn from_items(alloc: Global, items: &[Value]) -> Result<Value, Error>
        ensures value { IfOk result (λ v. v ≡ list (msgs items.now)) }
        ensures err { IfErr result (MakeFails (length items.now)) }
    {
        let len = head_len(items.len())?;
        let mut parts = Nodes::new(alloc);
        for item in items {
            parts.add_all(item.root, &item.parts)?;
        }
        Ok(Value::from_parts(Head::Array(len), 0, parts))
    }

    /// Makes a map of copies of the pairs, each a key and its value, in order. Keys may be of any kind, and may come
    /// again.
    ///
    /// # Errors
    /// `InvalidDataModel` for 2 ^ 32 pairs or more, and otherwise `OutOfMemory`.
    ///
    /// # Examples
    /// ```
    /// use rmp_serde::{Value, to_vec};
    ///
    /// let map = Value::from_pairs(alloc, &[(Value::from_text(alloc, "a")?, Value::nil(alloc))])?;
    /// assert_eq!(rt; to_vec(alloc, &map)?.as_slice(), [0x81, 0xa1, 0x61, 0xc0].as_slice());
    /// ```
    #[tactic(auto, unfolding(rmp_wire::specs::Heads::fits_head))]
    pub fn from_pairs(alloc: Global, entries: &[(Value, Value)]) -> Result<Value, Error>
        ensures value { IfOk result (λ v. v ≡ map (pairs entries.now)) }
        ensures err { IfErr result (MakeFails (length entries.now)) }
    {
        let len = head_len(entries.len())?;
        let mut parts = Nodes::new(alloc);
        for (key, value) in entries {
            parts.add_all(key.root, &key.parts)?;
            parts.add_all(value.root, &value.parts)?;
        }
        Ok(Value::from_parts(Head::Map(len), 0, parts))
    }
}
