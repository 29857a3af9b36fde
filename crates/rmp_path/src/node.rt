//! A head with its content.
ghost use Rattle.std.specs.Prelude.{◌≡◌, None, IfSome};
ghost use Rattle.rmp_path.specs.Places.{IsNode, IsNoNode, parts_of_head};

use rmp_wire::{Head, Source, next_head};

// A head with its content: how long they are, and what parts follow.
#[derive(Clone, Copy)]
pub(crate) struct Node {
    pub(crate) len: usize,
    pub(crate) is_map: bool,
    // How many messages are its parts: of a map two a pair.
    pub(crate) parts: u64,
}

// Reads the head and the content that the bytes begin with. Returns `None` where they end before, or begin no message.
pub(crate) fn node_at(bytes: &[u8]) -> Option<Node>
    ensures some { IfSome result (IsNode bytes.now) }
    ensures none { result ≡ None → IsNoNode bytes.now }
{
    let mut rest: &[u8] = bytes;
    let head = match next_head(&mut rest) {
        Ok((_, head)) => head,
        Err(_) => return None,
    };
    if !rest.skip(head.content_len() as usize) {
        return None;
    }
    let len = bytes.len() - rest.len();
    let (is_map, parts) = parts_in(&head);
    Some(Node { len, is_map, parts })
}

// What parts follow a head: whether they are a map's, and how many messages they are.
fn parts_in(head: &Head) -> (bool, u64)
    ensures { result ≡ parts_of_head head.now }
{
    match head {
        Head::Array(len) => (false, u64::from(*len)),
        Head::Map(len) => (true, 2 * u64::from(*len)),
        _ => (false, 0),
    }
}
