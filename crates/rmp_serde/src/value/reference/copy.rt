//! A part as a value of its own.
ghost use Rattle.std.specs.Prelude.{◌≡◌, IfOk};
ghost use Rattle.rmp_serde.specs.Parts.{tree};

use crate::value::flat::Nodes;
use crate::value::{Value, ValueRef};
use std::alloc::{AllocError, Global};

impl ValueRef<'_> {
    /// Makes a value of its own, which is a copy of the part.
    ///
    /// # Errors
    /// `AllocError` if memory runs out.
    ///
    /// # Examples
    /// ```
    /// use rmp_serde::{Value, to_vec};
    ///
    /// let list = Value::from_slice(alloc, &[0x92, 0x05, 0xa1, 0x61])?;
    /// for part in list.root().parts() {
    ///     let value = part.to_value(alloc)?;
    ///     assert_eq!(rt; value.root().kind(), part.kind());
    /// }
    /// ```
    pub fn to_value(self, alloc: Global) -> Result<Value, AllocError>
        ensures value { IfOk result (λ v. v ≡ tree self.entry) }
    {
        let node = self.node();
        let value = self.value;
        let from = &value.parts;
        let inner = from.past(self.at, node.parts()) - self.at;
        let mut parts = Nodes::new(alloc);
        parts.add_some(from, self.at, inner)?;
        let start = parts.bytes.len();
        parts.bytes.extend_from_slice(self.content())?;
        Ok(Value::from_parts(node.head(), start, parts))
    }
}
