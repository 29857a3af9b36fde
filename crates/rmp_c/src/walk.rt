//! Walking over the heads of a message.
ghost use Rattle.std.specs.Prelude.{◌≡◌, ◌≢◌, ◌↔◌, ℕ, List, [], drop};
ghost use Rattle.rmp_decode.specs.Kinds.{content_len};
ghost use Rattle.rmp_wire.specs.Heads.{fits_head};
ghost use Rattle.rmp_wire.specs.declared.head.Head.TheVariants.{Whole};
ghost use Rattle.rmp_c.specs.Items.{Node, IsItem, Says, SaysNumber, OpensReserved, EndsInside};

use rmp_wire::{Head, ValueReadError, next_head};

/// The node at an offset: what its head says, and where its content is.
#[repr(C)]
#[derive(Clone, Copy)]
pub struct Item {
    /// 0 nil, 1 truth; 2 a number from 0 on, 3 a number below 0; 4 and 5 floats of 32 and 64 bits; 6 a text, 7 bytes;
    /// 8 a list, 9 a map; 10 an extension.
    pub kind: u32,
    /// How many messages a list contains, or pairs a map.
    pub items: u32,
    /// The truth as 0 or 1, the number (below 0 in two's complement), the bits of the float, or the byte of the extension's type.
    pub number: u64,
    /// The offset of the content, which is after the head.
    pub start: usize,
    /// How many bytes of content there are.
    pub len: usize,
}

/// Reads the node at an offset: its kind, and where its content is. The next message, or the first one in a
/// list or a map, comes after the content. Neither the content of a text is checked, nor that of a list or a
/// map.
///
/// The status is 1 if the bytes end there, 2 if they end inside of the head or its content, and 3 at the byte
/// c1.
#[tactic(auto, unfolding(rmp_wire::specs::Taking::byte_of))]
#[unsafe(no_mangle)]
pub extern "C" fn rmp_next(bytes: &[u8], at: usize, item: &mut Item) -> u32
    ensures item { result ≡ 0 → IsItem bytes.now at item.new }
    // Otherwise there is no head with its content,
    ensures none { result ≢ 0 → Node bytes.now at → ⊥ }
    // and the item doesn't change.
    ensures kept { result ≢ 0 → item.new ≡ item.old }
    // Each status is returned exactly where it is so.
    ensures end { (result ≡ 1) ↔ (drop at bytes.now ≡ []) }
    ensures reserved { (result ≡ 3) ↔ OpensReserved (drop at bytes.now) }
    ensures cut { (result ≡ 2) ↔ EndsInside bytes.now at }
{
    if at >= bytes.len() {
        return 1;
    }
    let mut rest: &[u8] = &bytes[at..];
    match next_head(&mut rest) {
        Ok((_, head)) => {
            let content = head.content_len();
            if rest.len() < content as usize {
                return 2;
            }
            *item = item_of(head, bytes.len() - rest.len(), content);
            0
        }
        Err(ValueReadError::InvalidMarkerRead(_)) => 1,
        Err(ValueReadError::InvalidDataRead(_)) => 2,
        Err(ValueReadError::TypeMismatch(_)) => 3,
    }
}

// What a head says, where its payload is buffered.
fn item_of(head: Head, start: usize, content: u32) -> Item
    ensures says { fits_head head → Says head result }
    ensures start { result.start ≡ start }
    ensures len { result.len ≡ content }
{
    let (kind, items, number) = match head {
        Head::Nil => (0, 0, 0),
        Head::Truth(false) => (1, 0, 0),
        Head::Truth(true) => (1, 0, 1),
        Head::Whole(z) => {
            let (kind, number) = number_of(z);
            (kind, 0, number)
        }
        Head::F32Bits(bits) => (4, 0, u64::from(bits)),
        Head::F64Bits(bits) => (5, 0, bits),
        Head::Text(_) => (6, 0, 0),
        Head::Bin(_) => (7, 0, 0),
        Head::Array(items) => (8, items, 0),
        Head::Map(items) => (9, items, 0),
        Head::Ext(_, tag) => (10, 0, u64::from(tag.cast_unsigned())),
    };
    Item {
        kind,
        items,
        number,
        start,
        len: content as usize,
    }
}

// The kind of a number, and the number.
#[tactic(auto, unfolding(rmp_wire::specs::Heads::fits_head))]
fn number_of(z: i128) -> (u32, u64)
    ensures { fits_head (Whole z) → SaysNumber z result.0 result.1 }
{
    if z >= 0 {
        match u64::try_from(z) {
            Ok(n) => (2, n),
            Err(_) => (2, 0),
        }
    } else {
        match i64::try_from(z) {
            Ok(n) => (3, n.cast_unsigned()),
            Err(_) => (3, 0),
        }
    }
}
