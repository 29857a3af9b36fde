//! Finds where a message ends that arrives in pieces.
ghost use Rattle.std.specs.Prelude.{◌≡◌, ◌↔◌, ◌⊎◌, ℕ, List, ◌+◌, ◌^◌, ◌≤◌, ◌++◌, [], false, true, length, Ok, Err, Some, None, IfOk, IfErr, IfSome};
ghost use Rattle.rmp_decode.specs.declared.text.Text.TheVariants.{InvalidLength, FailedBefore};
ghost use Rattle.rmp_wire.specs.declared.marker.Marker.TheVariants as marker;
ghost use Rattle.rmp_scan.specs.Completes.{is_whole};

use crate::state::{State, next_of, state_with};
use crate::want::{Step, Want};
use rmp_decode::{Error, Text};
use rmp_wire::Marker;

/// What `scan` found in a piece.
#[derive(Clone, Copy, Debug, PartialEq)]
pub enum Scan {
    /// The first `used` bytes of the piece end the message.
    Whole { used: usize },
    /// The message doesn't end in the piece.
    More,
}

// The limit at first: no message comes near it.
const NO_LIMIT: u128 = 0x10_0000_0000_0000_0000_0000_0000;

/// Finds the ends of messages that arrive in pieces, as from a socket or the tail of a file.
///
/// It keeps what the message still needs, as a few numbers: how many messages, how many bytes of payload, and the rest
/// of a length that was cut. It allocates nothing, and looks at each byte once. Payload is skipped. Lists and maps may
/// nest to any depth, and texts needn't be UTF-8: a read of the message checks both.
#[derive(Clone, Copy, Debug)]
pub struct Scanner {
    limit: u128,
    taken: u128,
    want: Want,
    refused: bool,
    reserved: Option<usize>,
    ghost limited: { limit ≤ 2 ^ 100 },
    ghost counted: { want.messages ≤ 2 ^ 100 },
    ghost unfinished: { is_whole want ≡ false },
}

impl Scanner {
    ghost use Rattle.rmp_scan.specs.Scans.{Follows, IsAfter, IsBeginning, MessageEnds, Scans, is_refused, limit_of, reserved_of};
    ghost use Rattle.rmp_scan.specs.States.{IsStateOf, IsBroken, IsOutOfRange};

    /// Makes a scanner that waits for the first byte of a message.
    ///
    /// # Examples
    /// ```
    /// use rmp_serde::{Scan, Scanner};
    ///
    /// let mut scanner = Scanner::new();
    /// assert_eq!(rt; scanner.scan(&[0x92, 0x05, 0xa2, 0x69])?, Scan::More);
    /// // one byte more ends the list, and the second one is the next message's
    /// assert_eq!(rt; scanner.scan(&[0x74, 0xc0])?, Scan::Whole { used: 1 });
    /// ```
    pub fn new() -> Self
        ensures after { IsAfter [] result }
        ensures limit { limit_of result ≡ 2 ^ 100 }
        ensures reserved { reserved_of result ≡ None }
    {
        Scanner {
            limit: NO_LIMIT,
            taken: 0,
            want: Want::new(),
            refused: false,
            reserved: None,
        }
    }

    /// Sets the maximum length of a message, in bytes. A longer one is refused as soon as its heads ask for more,
    /// before its payload arrives. The default is 2^100 bytes.
    pub fn limit_bytes(&mut self, limit: usize)
        ensures limit { limit_of self.new ≡ limit }
        ensures after { (bytes : List ℕ) → IsAfter bytes self.old → IsAfter bytes self.new }
        ensures refused { is_refused self.old → is_refused self.new }
        ensures reserved { reserved_of self.new ≡ reserved_of self.old }
    {
        self.limit = limit as u128;
    }

    /// Scans the next piece. After `Whole` the scanner is as new: the rest of the piece belongs to the next message.
    ///
    /// # Errors
    /// `TypeMismatch(Reserved)` at the byte c1 in the place of a message: no message begins with these bytes.
    /// `Syntax("invalid length")` if the heads ask for more bytes than the limit. After an error each further call
    /// returns `Uncategorized("failed before")`.
    pub fn scan(&mut self, piece: &[u8]) -> Result<Scan, Error>
        // By the bytes that it has already and the piece, together.
        ensures law { (before : List ℕ) → IsAfter before self.old → Scans before piece.now (limit_of self.old) self.new result }
        // `Whole` exactly where a message within the limit ends in the piece,
        ensures whole { (before : List ℕ) → IsAfter before self.old → (used : ℕ) → (result ≡ Ok (Scan.Whole used))
            ↔ (MessageEnds (before ++ piece.now) (length before + used) × (length before + used ≤ limit_of self.old)) }
        // and `More` where the bytes are the beginning of one, unless all such messages are too long.
        ensures more { (before : List ℕ) → IsAfter before self.old → IsBeginning (before ++ piece.now)
            → (result ≡ Ok Scan.More) ⊎ (result ≡ Err (Error.Syntax InvalidLength)) }
        // Which bytes it has then.
        ensures after { (before : List ℕ) → IsAfter before self.old → IfOk result (Follows before piece.now self.new) }
        ensures limit { limit_of self.new ≡ limit_of self.old }
        ensures reserved { (result ≡ Err (Error.TypeMismatch marker.Reserved)) ⊎ (reserved_of self.new ≡ reserved_of self.old) }
        ensures refused { is_refused self.old → (result ≡ Err (Error.Uncategorized FailedBefore)) × (self.new ≡ self.old) }
    {
        if self.refused {
            return Err(Error::Uncategorized(Text::FailedBefore));
        }
        let room = self.limit.saturating_sub(self.taken);
        match self.want.advance(room, piece) {
            Step::Whole(used) => {
                self.taken = 0;
                self.want = Want::new();
                Ok(Scan::Whole { used })
            }
            Step::More(want) => {
                self.taken += piece.len() as u128;
                self.want = want;
                Ok(Scan::More)
            }
            Step::Reserved(at) => {
                self.refused = true;
                self.reserved = Some(at);
                Err(Error::TypeMismatch(Marker::Reserved))
            }
            Step::TooLong => {
                self.refused = true;
                Err(Error::Syntax(Text::InvalidLength))
            }
        }
    }

    /// Returns the offset of the byte c1 in the piece for which `scan` returned `TypeMismatch(Reserved)`, and `None`
    /// before that.
    pub fn reserved_at(&self) -> Option<usize>
        ensures { result ≡ reserved_of self.now }
    {
        self.reserved
    }

    /// Returns the state of the scanner as plain numbers, and `None` after an error or if one of them has more than 64
    /// bits.
    pub fn state(&self) -> Option<State>
        ensures some { IfSome result (IsStateOf self.now) }
        ensures none { result ≡ None → is_refused self.now ⊎ IsOutOfRange self.now }
    {
        if self.refused {
            return None;
        }
        let limit = u64::try_from(self.limit).ok()?;
        let taken = u64::try_from(self.taken).ok()?;
        let messages = u64::try_from(self.want.messages).ok()?;
        Some(state_with(limit, taken, messages, self.want.next))
    }

    /// Makes a scanner with this state. Returns `None` if no scanner has these numbers.
    pub fn from_state(state: &State) -> Option<Self>
        ensures some { IfSome result (λ s. IsStateOf s state.now) }
        ensures none { (result ≡ None) ↔ IsBroken state.now }
    {
        let next = next_of(state)?;
        let messages = u128::from(state.messages);
        let want = Want { next, messages };
        if want.is_whole() {
            return None;
        }
        Some(Scanner {
            limit: u128::from(state.limit),
            taken: u128::from(state.taken),
            want,
            refused: false,
            reserved: None,
        })
    }
}
