//! Two values are equal exactly if their trees are.
ghost use Rattle.std.specs.Prelude.{◌≡◌, ◌↔◌, IsTrue, length};
ghost use Rattle.std.specs.Cmp.{partial_equiv_from_equiv};
ghost use Rattle.rmp_serde.specs.Equal.{msg_eq};
ghost use Rattle.rmp_serde.specs.EqualLaws.{msg_eq_equiv};
ghost use Rattle.rmp_serde.specs.Flat.{heads_of, token_in, EndsBy, IsWithin};

use crate::value::Value;
use crate::value::flat::{Node, Nodes};

// Whether the two nodes have the same head and the same content.
#[inline(always)]
fn same_node(x: Node, xs: &Nodes, y: Node, ys: &Nodes) -> bool
    requires first { EndsBy (length xs.now.bytes.items) x }
    requires second { EndsBy (length ys.now.bytes.items) y }
    ensures same { IsTrue result ↔ (token_in xs.now.bytes.items x ≡ token_in ys.now.bytes.items y) }
{
    x.head() == y.head() && xs.content(x) == ys.content(y)
}

fn same_parts(xs: &Nodes, ys: &Nodes) -> bool
    requires first { IsWithin xs.now }
    requires second { IsWithin ys.now }
    ensures same { IsTrue result ↔ (heads_of xs.now ≡ heads_of ys.now) }
{
    if xs.nodes.len() != ys.nodes.len() {
        return false;
    }
    for i in 0..xs.nodes.len() {
        if !same_node(xs.nodes[i], xs, ys.nodes[i], ys) {
            return false;
        }
    }
    true
}

// Whether two values have the same heads and contents, in order; they do exactly if their trees are equal.
fn same(a: &Value, b: &Value) -> bool
    ensures same { IsTrue result ↔ (a.now ≡ b.now) }
{
    same_node(a.root, &a.parts, b.root, &b.parts) && same_parts(&a.parts, &b.parts)
}

impl PartialEq for Value {
    ghost eq = { msg_eq };

    ghost laws = { partial_equiv_from_equiv msg_eq_equiv };

    fn eq(&self, other: &Value) -> bool
        ensures value { result ≡ msg_eq self.now other.now }
        ensures equal { IsTrue result ↔ (self.now ≡ other.now) }
    {
        same(self, other)
    }
}

impl Eq for Value {
    ghost laws = { msg_eq_equiv };
}
