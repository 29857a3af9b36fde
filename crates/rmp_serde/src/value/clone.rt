//! A second value with the same tree.
ghost use Rattle.std.specs.Prelude.{◌≡◌, IfOk};

use crate::value::Value;
use crate::value::flat::Nodes;
use std::alloc::AllocError;

impl Nodes {
    // Makes a copy of the nodes and their content.
    fn copy(&self) -> Result<Nodes, AllocError>
        ensures nodes { IfOk result (λ made. made.nodes.items ≡ self.now.nodes.items) }
        ensures bytes { IfOk result (λ made. made.bytes.items ≡ self.now.bytes.items) }
    {
        let alloc = *self.nodes.allocator();
        let mut nodes = Vec::new(alloc);
        nodes.extend_from_slice(self.nodes.as_slice())?;
        let mut bytes = Vec::new(alloc);
        bytes.extend_from_slice(self.bytes.as_slice())?;
        Ok(Nodes { nodes, bytes })
    }
}

/// Makes a value with the same tree.
impl Clone for Value {
    ghost is_clone = { λ v w. w ≡ v };

    fn clone(&self) -> Result<Value, AllocError> {
        Ok(Value {
            root: self.root,
            parts: self.parts.copy()?,
        })
    }
}
