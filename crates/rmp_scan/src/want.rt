//! What a message that arrives in pieces still wants.
ghost use Rattle.std.specs.Prelude.{◌≡◌, ◌↔◌, List, ℕ, ◌+◌, ◌*◌, ◌^◌, ◌<◌, ◌≤◌, length, false, MatchOption};
ghost use Rattle.rmp_scan.specs.Openings.{HasRoom, WantsLength};
ghost use Rattle.rmp_scan.specs.Completes.{Completes, least_of, is_whole, Steps, Sticks, Advances};

use crate::length::Length;
use crate::opening::{Counts, Opening, read_opening};
use crate::small::{MOST, pass_small};

// What comes next.
#[derive(Clone, Copy, Debug)]
pub(crate) enum Next {
    // So many bytes of payload.
    Payload(u64),
    // The rest of a length, and what it counts.
    Length(Length),
}

// What is wanted.
#[derive(Clone, Copy, Debug)]
pub(crate) struct Want {
    pub(crate) next: Next,
    // How many messages follow that.
    pub(crate) messages: u128,
}

impl Want {
    // A message.
    pub(crate) fn new() -> Want
        ensures { result ≡ record { next = Next.Payload 0; messages = 1 } }
    {
        Want {
            next: Next::Payload(0),
            messages: 1,
        }
    }

    // Whether nothing more is wanted.
    pub(crate) fn is_whole(&self) -> bool
        ensures { result ≡ is_whole self.now }
    {
        match self.next {
            Next::Payload(n) => n == 0 && self.messages == 0,
            Next::Length(_) => false,
        }
    }

    // How many bytes that are at least.
    fn least(&self) -> u128
        requires room { self.now.messages ≤ 2 ^ 120 }
        ensures { result ≡ least_of self.now }
    {
        match self.next {
            Next::Payload(n) => u128::from(n) + self.messages,
            Next::Length(length) => u128::from(length.missing) + self.messages,
        }
    }

    // Takes a beginning of the bytes, and says what is wanted then. `None` at the byte c1 where a message is wanted.
    fn step(self, bytes: &[u8]) -> Option<(Want, usize)>
        requires room { self.messages ≤ 2 ^ 100 }
        requires wanted { is_whole self ≡ false }
        requires some { 0 < length bytes.now }
        ensures { MatchOption result (Sticks self bytes.now) (λ s. Steps self bytes.now s.0 s.1) }
    {
        match self.next {
            Next::Payload(0) => self.pass_messages(bytes),
            Next::Payload(n) => {
                let passed = n.min(bytes.len() as u64);
                let next = Next::Payload(n - passed);
                Some((
                    Want {
                        next,
                        messages: self.messages,
                    },
                    passed as usize,
                ))
            }
            Next::Length(length) => {
                let (missing, value, read) = length.read(bytes);
                Some((
                    after_length(length.counts, missing, value, self.messages),
                    read,
                ))
            }
        }
    }

    // The same where messages come next.
    fn pass_messages(self, bytes: &[u8]) -> Option<(Want, usize)>
        requires room { self.messages ≤ 2 ^ 100 }
        requires next { self.next ≡ Next.Payload 0 }
        requires wanted { 0 < self.messages }
        requires some { 0 < length bytes.now }
        ensures { MatchOption result (Sticks self bytes.now) (λ s. Steps self bytes.now s.0 s.1) }
    {
        let most = self.messages.min(MOST) as u64;
        let (at, wanted) = pass_small(bytes, most);
        if at > 0 {
            let messages = self.messages - u128::from(most) + u128::from(wanted);
            return Some((
                Want {
                    next: Next::Payload(0),
                    messages,
                },
                at,
            ));
        }
        let others = self.messages - 1;
        match read_opening(bytes[0]) {
            Opening::Fixed { payload, parts } => {
                let messages = u128::from(parts) + others;
                Some((
                    Want {
                        next: Next::Payload(u64::from(payload)),
                        messages,
                    },
                    1,
                ))
            }
            Opening::Counted { counts, width } => {
                let length = Length {
                    counts,
                    missing: width,
                    value: 0,
                };
                Some((
                    Want {
                        next: Next::Length(length),
                        messages: others,
                    },
                    1,
                ))
            }
            Opening::Reserved => None,
        }
    }

    // Goes through a piece, where the message may have `room` bytes more.
    pub(crate) fn advance(self, room: u128, piece: &[u8]) -> Step
        requires room { room ≤ 2 ^ 100 }
        requires counted { self.messages ≤ 2 ^ 100 }
        ensures { Advances self room piece.now result }
    {
        let mut want = self;
        let mut at: usize = 0;
        if want.least() > room {
            return Step::TooLong;
        }
        'steps: while !want.is_whole() && at < piece.len() {
            match want.step(&piece[at..]) {
                Some((next, passed)) => {
                    want = next;
                    at += passed;
                    if at as u128 + want.least() > room {
                        return Step::TooLong;
                    }
                }
                None => return Step::Reserved(at),
            }
        }
        if want.is_whole() {
            Step::Whole(at)
        } else {
            Step::More(want)
        }
    }
}

// What is wanted after a length of which `missing` bytes are missing, and after that `messages` messages.
fn after_length(counts: Counts, missing: u8, value: u32, messages: u128) -> Want
    requires messages { messages ≤ 2 ^ 100 }
    requires room { HasRoom missing value }
    ensures same { (rest : List ℕ) → WantsLength counts missing value messages rest ↔ Completes result rest }
    ensures claims { least_of result ≤ missing + messages + 2 ^ 33 }
{
    if missing > 0 {
        let length = Length {
            counts,
            missing,
            value,
        };
        return Want {
            next: Next::Length(length),
            messages,
        };
    }
    match counts {
        Counts::Payload => Want {
            next: Next::Payload(u64::from(value)),
            messages,
        },
        Counts::Extension => Want {
            next: Next::Payload(u64::from(value) + 1),
            messages,
        },
        Counts::Items => Want {
            next: Next::Payload(0),
            messages: u128::from(value) + messages,
        },
        Counts::Pairs => Want {
            next: Next::Payload(0),
            messages: 2 * u128::from(value) + messages,
        },
    }
}

// Where a piece leads.
#[derive(Clone, Copy, Debug)]
pub(crate) enum Step {
    // So many bytes of it end the message.
    Whole(usize),
    // It has come to its end, and this is wanted then.
    More(Want),
    // At this offset is the byte c1 where a message is wanted.
    Reserved(usize),
    // The message has more bytes than it may have.
    TooLong,
}
