//! The fast path for short nodes: a table of first bytes.
ghost use Rattle.std.specs.Prelude.{◌≡◌, ◌≤◌, ◌*◌, [], ◌∷◌, length, drop};
ghost use Rattle.rmp_serde.specs.Places.{TakesNodes};
ghost use Rattle.rmp_serde.specs.Short.{entry};

// What a first byte says of a head.
#[derive(Clone, Copy)]
struct Entry {
    // This is added to the big-endian number in the next four bytes,
    added: u64,
    // and if the sum is at least this, the head is canonical;
    least: u64,
    // then it has this many bytes with its content,
    size: u64,
    // and this many messages follow as its parts.
    parts: u64,
}

// The most bytes that a short head has with its content.
pub(super) const LONGEST: u64 = 32;

// No sum is as large as this: such a head isn't in the table.
const NEVER: u64 = u64::MAX;

// For a number below 0, the sum passes 2^64 if a shorter head exists.
const I8_ADDED: u64 = 0xffff_ffff_2000_0000;

const I8_LEAST: u64 = 0xffff_ffff_a000_0000;

const I16_ADDED: u64 = 0xffff_ffff_0080_0000;

const I16_LEAST: u64 = 0xffff_ffff_8080_0000;

const I32_ADDED: u64 = 0xffff_ffff_0000_8000;

const I32_LEAST: u64 = 0xffff_ffff_8000_8000;

const I64_ADDED: u64 = 0xffff_ffff_0000_0001;

const I64_LEAST: u64 = 0xffff_ffff_8000_0001;

// The four numbers for each first byte.
const NODES: [u64; 1024] = [
    0, 0, 1, 0, 0, 0, 1, 0, 0, 0, 1, 0, 0, 0, 1, 0, 0, 0, 1, 0, 0, 0, 1, 0, 0, 0, 1, 0, 0, 0, 1, 0,
    0, 0, 1, 0, 0, 0, 1, 0, 0, 0, 1, 0, 0, 0, 1, 0, 0, 0, 1, 0, 0, 0, 1, 0, 0, 0, 1, 0, 0, 0, 1, 0,
    0, 0, 1, 0, 0, 0, 1, 0, 0, 0, 1, 0, 0, 0, 1, 0, 0, 0, 1, 0, 0, 0, 1, 0, 0, 0, 1, 0, 0, 0, 1, 0,
    0, 0, 1, 0, 0, 0, 1, 0, 0, 0, 1, 0, 0, 0, 1, 0, 0, 0, 1, 0, 0, 0, 1, 0, 0, 0, 1, 0, 0, 0, 1, 0,
    0, 0, 1, 0, 0, 0, 1, 0, 0, 0, 1, 0, 0, 0, 1, 0, 0, 0, 1, 0, 0, 0, 1, 0, 0, 0, 1, 0, 0, 0, 1, 0,
    0, 0, 1, 0, 0, 0, 1, 0, 0, 0, 1, 0, 0, 0, 1, 0, 0, 0, 1, 0, 0, 0, 1, 0, 0, 0, 1, 0, 0, 0, 1, 0,
    0, 0, 1, 0, 0, 0, 1, 0, 0, 0, 1, 0, 0, 0, 1, 0, 0, 0, 1, 0, 0, 0, 1, 0, 0, 0, 1, 0, 0, 0, 1, 0,
    0, 0, 1, 0, 0, 0, 1, 0, 0, 0, 1, 0, 0, 0, 1, 0, 0, 0, 1, 0, 0, 0, 1, 0, 0, 0, 1, 0, 0, 0, 1, 0,
    0, 0, 1, 0, 0, 0, 1, 0, 0, 0, 1, 0, 0, 0, 1, 0, 0, 0, 1, 0, 0, 0, 1, 0, 0, 0, 1, 0, 0, 0, 1, 0,
    0, 0, 1, 0, 0, 0, 1, 0, 0, 0, 1, 0, 0, 0, 1, 0, 0, 0, 1, 0, 0, 0, 1, 0, 0, 0, 1, 0, 0, 0, 1, 0,
    0, 0, 1, 0, 0, 0, 1, 0, 0, 0, 1, 0, 0, 0, 1, 0, 0, 0, 1, 0, 0, 0, 1, 0, 0, 0, 1, 0, 0, 0, 1, 0,
    0, 0, 1, 0, 0, 0, 1, 0, 0, 0, 1, 0, 0, 0, 1, 0, 0, 0, 1, 0, 0, 0, 1, 0, 0, 0, 1, 0, 0, 0, 1, 0,
    0, 0, 1, 0, 0, 0, 1, 0, 0, 0, 1, 0, 0, 0, 1, 0, 0, 0, 1, 0, 0, 0, 1, 0, 0, 0, 1, 0, 0, 0, 1, 0,
    0, 0, 1, 0, 0, 0, 1, 0, 0, 0, 1, 0, 0, 0, 1, 0, 0, 0, 1, 0, 0, 0, 1, 0, 0, 0, 1, 0, 0, 0, 1, 0,
    0, 0, 1, 0, 0, 0, 1, 0, 0, 0, 1, 0, 0, 0, 1, 0, 0, 0, 1, 0, 0, 0, 1, 0, 0, 0, 1, 0, 0, 0, 1, 0,
    0, 0, 1, 0, 0, 0, 1, 0, 0, 0, 1, 0, 0, 0, 1, 0, 0, 0, 1, 0, 0, 0, 1, 0, 0, 0, 1, 0, 0, 0, 1, 0,
    0, 0, 1, 0, 0, 0, 1, 2, 0, 0, 1, 4, 0, 0, 1, 6, 0, 0, 1, 8, 0, 0, 1, 10, 0, 0, 1, 12, 0, 0, 1,
    14, 0, 0, 1, 16, 0, 0, 1, 18, 0, 0, 1, 20, 0, 0, 1, 22, 0, 0, 1, 24, 0, 0, 1, 26, 0, 0, 1, 28,
    0, 0, 1, 30, 0, 0, 1, 0, 0, 0, 1, 1, 0, 0, 1, 2, 0, 0, 1, 3, 0, 0, 1, 4, 0, 0, 1, 5, 0, 0, 1,
    6, 0, 0, 1, 7, 0, 0, 1, 8, 0, 0, 1, 9, 0, 0, 1, 10, 0, 0, 1, 11, 0, 0, 1, 12, 0, 0, 1, 13, 0,
    0, 1, 14, 0, 0, 1, 15, 0, 0, 1, 0, 0, 0, 2, 0, 0, 0, 3, 0, 0, 0, 4, 0, 0, 0, 5, 0, 0, 0, 6, 0,
    0, 0, 7, 0, 0, 0, 8, 0, 0, 0, 9, 0, 0, 0, 10, 0, 0, 0, 11, 0, 0, 0, 12, 0, 0, 0, 13, 0, 0, 0,
    14, 0, 0, 0, 15, 0, 0, 0, 16, 0, 0, 0, 17, 0, 0, 0, 18, 0, 0, 0, 19, 0, 0, 0, 20, 0, 0, 0, 21,
    0, 0, 0, 22, 0, 0, 0, 23, 0, 0, 0, 24, 0, 0, 0, 25, 0, 0, 0, 26, 0, 0, 0, 27, 0, 0, 0, 28, 0,
    0, 0, 29, 0, 0, 0, 30, 0, 0, 0, 31, 0, 0, 0, 32, 0, 0, 0, 1, 0, 0, NEVER, 0, 0, 0, 0, 1, 0, 0,
    0, 1, 0, 0, NEVER, 0, 0, 0, NEVER, 0, 0, 0, NEVER, 0, 0, 0, NEVER, 0, 0, 0, NEVER, 0, 0, 0,
    NEVER, 0, 0, 0, 0, 5, 0, 0, 0, 9, 0, 0, 0x80000000, 2, 0, 0, 0x1000000, 3, 0, 0, 0x10000, 5, 0,
    0, 1, 9, 0, I8_ADDED, I8_LEAST, 2, 0, I16_ADDED, I16_LEAST, 3, 0, I32_ADDED, I32_LEAST, 5, 0,
    I64_ADDED, I64_LEAST, 9, 0, 0, NEVER, 0, 0, 0, NEVER, 0, 0, 0, NEVER, 0, 0, 0, NEVER, 0, 0, 0,
    NEVER, 0, 0, 0, NEVER, 0, 0, 0, NEVER, 0, 0, 0, NEVER, 0, 0, 0, NEVER, 0, 0, 0, NEVER, 0, 0, 0,
    NEVER, 0, 0, 0, NEVER, 0, 0, 0, 0, 1, 0, 0, 0, 1, 0, 0, 0, 1, 0, 0, 0, 1, 0, 0, 0, 1, 0, 0, 0,
    1, 0, 0, 0, 1, 0, 0, 0, 1, 0, 0, 0, 1, 0, 0, 0, 1, 0, 0, 0, 1, 0, 0, 0, 1, 0, 0, 0, 1, 0, 0, 0,
    1, 0, 0, 0, 1, 0, 0, 0, 1, 0, 0, 0, 1, 0, 0, 0, 1, 0, 0, 0, 1, 0, 0, 0, 1, 0, 0, 0, 1, 0, 0, 0,
    1, 0, 0, 0, 1, 0, 0, 0, 1, 0, 0, 0, 1, 0, 0, 0, 1, 0, 0, 0, 1, 0, 0, 0, 1, 0, 0, 0, 1, 0, 0, 0,
    1, 0, 0, 0, 1, 0, 0, 0, 1, 0,
];

#[inline(always)]
fn entry_of(first: u8) -> Entry
    ensures { entry first ≡ result.added ∷ result.least ∷ result.size ∷ result.parts ∷ [] }
{
    let at = 4 * first as usize;
    Entry {
        added: NODES[at],
        least: NODES[at + 1],
        size: NODES[at + 2],
        parts: NODES[at + 3],
    }
}

// The number of heads that the table handles before small numbers are looked for again.
const BLOCK: u64 = 4096;

// Skips canonical heads and their contents, at most `most`, as far as the table goes. Returns how many bytes
// they have, how many they are, and how many messages follow as their parts.
pub(super) fn short_nodes(bytes: &[u8], most: u64) -> (usize, u64, u64)
    requires room { LONGEST * most ≤ length bytes.now }
    ensures within { result.0 ≤ length bytes.now }
    ensures most { result.1 ≤ most }
    ensures nodes { TakesNodes result.1 result.2 bytes.now (drop result.0 bytes.now) }
{
    let mut at: usize = 0;
    // A run of small numbers: here the next offset doesn't depend on the table.
    'small: while (at as u64) < most && bytes[at] < 0x80 {
        at += 1;
    }
    let small = at as u64;
    let block = (most - small).min(BLOCK);
    let mut todo = block;
    let mut parts: u64 = 0;
    'table: while todo > 0 {
        let entry = entry_of(bytes[at]);
        let next = u32::from_be_bytes([bytes[at + 1], bytes[at + 2], bytes[at + 3], bytes[at + 4]]);
        if u64::from(next).wrapping_add(entry.added) < entry.least {
            break;
        }
        at += entry.size as usize;
        parts += entry.parts;
        todo -= 1;
    }
    (at, small + (block - todo), parts)
}
