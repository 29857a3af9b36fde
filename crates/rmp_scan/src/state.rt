//! What a scanner keeps, as plain numbers.
ghost use Rattle.std.specs.Prelude.{◌≡◌, None, IfSome};
ghost use Rattle.rmp_scan.specs.States.{IsNext};

use crate::length::Length;
use crate::opening::Counts;
use crate::want::Next;

/// What a scanner keeps, as plain numbers, so that a program in another language can keep it.
#[repr(C)]
#[derive(Clone, Copy, Debug, PartialEq)]
pub struct State {
    /// The maximum length of a message, in bytes.
    pub limit: u64,
    /// How many bytes of the message were scanned.
    pub taken: u64,
    /// How many messages follow what comes next.
    pub messages: u64,
    /// How many bytes of payload come next, or which number the bytes make that have come of a length.
    pub number: u64,
    /// What comes next: 0 payload, or the rest of a length, which counts payload (1), the payload of an extension (2), elements (3) or pairs (4).
    pub next: u32,
    /// How many bytes of that length are missing.
    pub missing: u32,
}

// The state with these numbers.
pub(crate) fn state_with(limit: u64, taken: u64, messages: u64, next: Next) -> State
    ensures limit { result.limit ≡ limit }
    ensures taken { result.taken ≡ taken }
    ensures messages { result.messages ≡ messages }
    ensures next { IsNext next result }
{
    let (next, number, missing) = match next {
        Next::Payload(n) => (0, n, 0),
        Next::Length(length) => {
            let next = match length.counts {
                Counts::Payload => 1,
                Counts::Extension => 2,
                Counts::Items => 3,
                Counts::Pairs => 4,
            };
            (next, u64::from(length.value), u32::from(length.missing))
        }
    };
    State {
        limit,
        taken,
        messages,
        number,
        next,
        missing,
    }
}

// What comes next, if the numbers are right.
pub(crate) fn next_of(state: &State) -> Option<Next>
    ensures some { IfSome result (λ next. IsNext next state.now) }
    ensures none { result ≡ None → (next : Next) → IsNext next state.now → ⊥ }
{
    let counts = match state.next {
        0 => return Some(Next::Payload(state.number)),
        1 => Counts::Payload,
        2 => Counts::Extension,
        3 => Counts::Items,
        4 => Counts::Pairs,
        _ => return None,
    };
    let (missing, bound) = match state.missing {
        1 => (1, 0x100_0000),
        2 => (2, 0x1_0000),
        3 => (3, 0x100),
        4 => (4, 1),
        _ => return None,
    };
    if state.number >= bound {
        return None;
    }
    let value = state.number as u32;
    Some(Next::Length(Length {
        counts,
        missing,
        value,
    }))
}
