//! Adds copies of values to a list or a map.
ghost use Rattle.std.specs.Prelude.{◌≡◌, ◌≤◌, ◌+◌, ◌-◌, ◌++◌, ◌∷◌, [], List, Some, length, map, vec_len, vec_capacity, OnOk, OnErr, IfErr};
ghost use Rattle.std.specs.List.{AllByRecursion};
ghost use Rattle.rmp_wire.specs.Msg.{Msg};
ghost use Rattle.rmp_serde.specs.Flat.{EndsBy};
ghost use Rattle.rmp_serde.specs.Pushing.{moved, pushed, pushed_pair, AreNodesOf, AreSame, Begins, PushFails, PushPairFails};

use crate::value::Value;
use crate::value::flat::{Node, Nodes};
use crate::value::leaves::head_len;
use rmp_encode::Error;
use std::alloc::AllocError;

impl Node {
    // The node, where its content begins so many bytes later.
    fn moved(self, by: usize) -> Node
        requires room { EndsBy (18446744073709551615 - by) self }
        ensures same { result ≡ moved by self }
    {
        match self {
            Node::Text(len, at) => Node::Text(len, by + at),
            Node::Bytes(len, at) => Node::Bytes(len, by + at),
            Node::Ext(tag, len, at) => Node::Ext(tag, len, by + at),
            node => node,
        }
    }
}

impl Nodes {
    // Adds nodes, whose content begins so many bytes later. There is room for them.
    fn push_moved(&mut self, row: &[Node], by: usize)
        requires space { vec_len self.old.nodes + length row.now ≤ vec_capacity self.old.nodes }
        requires room { AllByRecursion (EndsBy (18446744073709551615 - by)) row.now }
        ensures nodes { self.new.nodes.items ≡ self.old.nodes.items ++ map (moved by) row.now }
        ensures bytes { self.new.bytes ≡ self.old.bytes }
        ensures capacity { vec_capacity self.new.nodes ≡ vec_capacity self.old.nodes }
    {
        for node in row {
            self.nodes.push_reserved(node.moved(by));
        }
    }

    // Adds a copy of a message: its root, and the nodes of its parts. Where memory is refused they stay as they are.
    fn append(&mut self, item: &Value) -> Result<(), AllocError>
        ensures ok { OnOk result ((ms : List Msg) → AreNodesOf self.old ms → AreNodesOf self.new (ms ++ item.now ∷ [])) }
        ensures front { OnOk result (Begins self.old self.new) }
        ensures kept { OnErr result (AreSame self.old self.new) }
    {
        let parts = &item.parts;
        let by = self.bytes.len();
        let count = 1 + parts.nodes.len();
        self.nodes.reserve(count)?;
        self.bytes.extend_from_slice(parts.bytes.as_slice())?;
        self.push_moved(&[item.root.taking(count)], by);
        self.push_moved(parts.nodes.as_slice(), by);
        Ok(())
    }

    // Adds copies of a key and of its value. Where memory is refused they stay as they are.
    fn append_pair(&mut self, key: &Value, value: &Value) -> Result<(), AllocError>
        ensures ok { OnOk result ((ms : List Msg) → AreNodesOf self.old ms → AreNodesOf self.new (ms ++ key.now ∷ value.now ∷ [])) }
        ensures kept { OnErr result (AreSame self.old self.new) }
    {
        let (nodes, bytes) = (self.nodes.len(), self.bytes.len());
        self.append(key)?;
        match self.append(value) {
            Ok(()) => Ok(()),
            Err(e) => {
                self.nodes.truncate(nodes);
                self.bytes.truncate(bytes);
                Err(e)
            }
        }
    }
}

impl Value {
    /// Adds a copy of an item at the end of a list. It takes as long as the item is, however long the list.
    ///
    /// # Errors
    /// `InvalidDataModel` for what is no list and for 2 ^ 32 items, and otherwise `OutOfMemory`. The value stays as it is.
    ///
    /// # Examples
    /// ```
    /// use rmp_serde::{Value, to_vec};
    ///
    /// let mut list = Value::from_items(alloc, &[])?;
    /// for number in 1..4 {
    ///     list.push(&Value::from_u64(alloc, number))?;
    /// }
    /// assert_eq!(rt; to_vec(alloc, &list)?.as_slice(), [0x93, 0x01, 0x02, 0x03].as_slice());
    /// assert!(rt; Value::nil(alloc).push(&list).is_err());
    /// ```
    pub fn push(&mut self, item: &Value) -> Result<(), Error>
        ensures ok { OnOk result (pushed self.old item.now ≡ Some self.new) }
        ensures err { IfErr result (PushFails self.old) }
        ensures kept { OnErr result (self.new ≡ self.old) }
    {
        match self.root {
            Node::List(len, _) => {
                let len = head_len(len as usize + 1)?;
                self.parts.append(item)?;
                self.root = Node::List(len, 1);
                Ok(())
            }
            _ => Err(Error::InvalidDataModel("no list")),
        }
    }

    /// Adds copies of a key and its value at the end of a map. The key may be there already.
    ///
    /// # Errors
    /// `InvalidDataModel` for what is no map and for 2 ^ 32 pairs, and otherwise `OutOfMemory`. The value stays as it is.
    ///
    /// # Examples
    /// ```
    /// use rmp_serde::{Value, to_vec};
    ///
    /// let mut dog = Value::from_pairs(alloc, &[])?;
    /// dog.push_pair(&Value::from_text(alloc, "age")?, &Value::from_u64(alloc, 8))?;
    /// assert_eq!(rt; to_vec(alloc, &dog)?.as_slice(), b"\x81\xa3age\x08".as_slice());
    /// ```
    pub fn push_pair(&mut self, key: &Value, value: &Value) -> Result<(), Error>
        ensures ok { OnOk result (pushed_pair self.old key.now value.now ≡ Some self.new) }
        ensures err { IfErr result (PushPairFails self.old) }
        ensures kept { OnErr result (self.new ≡ self.old) }
    {
        match self.root {
            Node::Map(len, _) => {
                let len = head_len(len as usize + 1)?;
                self.parts.append_pair(key, value)?;
                self.root = Node::Map(len, 1);
                Ok(())
            }
            _ => Err(Error::InvalidDataModel("no map")),
        }
    }
}
