//! Messages that their first byte tells the length of: a table of first bytes.
ghost use Rattle.std.specs.Prelude.{◌≡◌, ◌+◌, ◌*◌, ◌-◌, ◌≤◌, ℕ, length, take};
ghost use Rattle.rmp_wire.specs.Taking.{marker_of};
ghost use Rattle.rmp_scan.specs.Openings.{opening_of, Tells, Passes};

// What a first byte says of such a message.
#[derive(Clone, Copy)]
struct Small {
    // How many bytes follow, or `NEVER` for any other message.
    payload: u32,
    // How many messages are its parts.
    parts: u32,
}

// No block has so many bytes after a first byte.
const NEVER: u32 = u32::MAX;

// The two numbers for each first byte.
const SMALL: [u32; 512] = [
    0, 0, 0, 0, 0, 0, 0, 0, 0, 0, 0, 0, 0, 0, 0, 0, 0, 0, 0, 0, 0, 0, 0, 0, 0, 0, 0, 0, 0, 0, 0, 0,
    0, 0, 0, 0, 0, 0, 0, 0, 0, 0, 0, 0, 0, 0, 0, 0, 0, 0, 0, 0, 0, 0, 0, 0, 0, 0, 0, 0, 0, 0, 0, 0,
    0, 0, 0, 0, 0, 0, 0, 0, 0, 0, 0, 0, 0, 0, 0, 0, 0, 0, 0, 0, 0, 0, 0, 0, 0, 0, 0, 0, 0, 0, 0, 0,
    0, 0, 0, 0, 0, 0, 0, 0, 0, 0, 0, 0, 0, 0, 0, 0, 0, 0, 0, 0, 0, 0, 0, 0, 0, 0, 0, 0, 0, 0, 0, 0,
    0, 0, 0, 0, 0, 0, 0, 0, 0, 0, 0, 0, 0, 0, 0, 0, 0, 0, 0, 0, 0, 0, 0, 0, 0, 0, 0, 0, 0, 0, 0, 0,
    0, 0, 0, 0, 0, 0, 0, 0, 0, 0, 0, 0, 0, 0, 0, 0, 0, 0, 0, 0, 0, 0, 0, 0, 0, 0, 0, 0, 0, 0, 0, 0,
    0, 0, 0, 0, 0, 0, 0, 0, 0, 0, 0, 0, 0, 0, 0, 0, 0, 0, 0, 0, 0, 0, 0, 0, 0, 0, 0, 0, 0, 0, 0, 0,
    0, 0, 0, 0, 0, 0, 0, 0, 0, 0, 0, 0, 0, 0, 0, 0, 0, 0, 0, 0, 0, 0, 0, 0, 0, 0, 0, 0, 0, 0, 0, 0,
    0, 0, 0, 2, 0, 4, 0, 6, 0, 8, 0, 10, 0, 12, 0, 14, 0, 16, 0, 18, 0, 20, 0, 22, 0, 24, 0, 26, 0,
    28, 0, 30, 0, 0, 0, 1, 0, 2, 0, 3, 0, 4, 0, 5, 0, 6, 0, 7, 0, 8, 0, 9, 0, 10, 0, 11, 0, 12, 0,
    13, 0, 14, 0, 15, 0, 0, 1, 0, 2, 0, 3, 0, 4, 0, 5, 0, 6, 0, 7, 0, 8, 0, 9, 0, 10, 0, 11, 0, 12,
    0, 13, 0, 14, 0, 15, 0, 16, 0, 17, 0, 18, 0, 19, 0, 20, 0, 21, 0, 22, 0, 23, 0, 24, 0, 25, 0,
    26, 0, 27, 0, 28, 0, 29, 0, 30, 0, 31, 0, 0, 0, NEVER, 0, 0, 0, 0, 0, NEVER, 0, NEVER, 0,
    NEVER, 0, NEVER, 0, NEVER, 0, NEVER, 0, 4, 0, 8, 0, 1, 0, 2, 0, 4, 0, 8, 0, 1, 0, 2, 0, 4, 0,
    8, 0, 2, 0, 3, 0, 5, 0, 9, 0, 17, 0, NEVER, 0, NEVER, 0, NEVER, 0, NEVER, 0, NEVER, 0, NEVER,
    0, NEVER, 0, 0, 0, 0, 0, 0, 0, 0, 0, 0, 0, 0, 0, 0, 0, 0, 0, 0, 0, 0, 0, 0, 0, 0, 0, 0, 0, 0,
    0, 0, 0, 0, 0, 0, 0, 0, 0, 0, 0, 0, 0, 0, 0, 0, 0, 0, 0, 0, 0, 0, 0, 0, 0, 0, 0, 0, 0, 0, 0, 0,
    0, 0, 0, 0, 0,
];

#[inline(always)]
fn small_of(first: u8) -> Small
    ensures { Tells (opening_of (marker_of first)) result.payload result.parts }
{
    let at = 2 * first as usize;
    Small {
        payload: SMALL[at],
        parts: SMALL[at + 1],
    }
}

// How many messages are counted at once, and among how many bytes, so that no count wraps.
pub(crate) const MOST: u128 = 0x4000_0000_0000_0000;

const BLOCK: usize = NEVER as usize;

// Passes over at most `most` small numbers of one byte, and returns how many there were: in a run of them no offset depends on the table.
#[inline(always)]
fn pass_numbers(bytes: &[u8], most: usize) -> usize
    requires room { most ≤ length bytes.now }
    ensures most { result ≤ most }
    ensures passes { (n : ℕ) → most ≤ n → Passes (take result bytes.now) n (n - result) }
{
    let mut at: usize = 0;
    'numbers: while at < most && bytes[at] < 0x80 {
        at += 1;
    }
    at
}

// Passes over messages whose first byte tells their length, as far as they are whole. It returns how many bytes they have, and how many
// of the `most` messages are still wanted.
pub(crate) fn pass_small(bytes: &[u8], most: u64) -> (usize, u64)
    requires room { most ≤ MOST }
    ensures within { result.0 ≤ length bytes.now }
    ensures passes { Passes (take result.0 bytes.now) most result.1 }
    ensures claims { result.1 ≤ most + 30 * result.0 }
{
    let len = bytes.len().min(BLOCK);
    let mut at = pass_numbers(bytes, len.min(most as usize));
    let mut wanted = most - at as u64;
    'small: while wanted > 0 && at < len {
        let small = small_of(bytes[at]);
        let payload = small.payload as usize;
        if payload >= len - at {
            break;
        }
        at += 1 + payload;
        wanted = wanted - 1 + u64::from(small.parts);
    }
    (at, wanted)
}
