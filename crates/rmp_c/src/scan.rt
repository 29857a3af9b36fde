//! Where messages end that arrive in pieces.
ghost use Rattle.std.specs.Prelude.{◌≡◌, ◌≢◌, ◌↔◌, ◌⊎◌, ℕ, List, [], ◌+◌, ◌^◌, ◌<◌, ◌≤◌, ◌++◌, length, None, IfSome};
ghost use Rattle.rmp_scan.specs.Completes.{least_of};
ghost use Rattle.rmp_scan.specs.Scans.{IsAfter, IsBeginning, MessageEnds, limit_of};
ghost use Rattle.rmp_scan.specs.States.{Holds, IsBroken, IsStateOf};
ghost use Rattle.rmp_c.specs.Pieces.{Scans, is_too_long};

use rmp_scan::{Scan, Scanner, State};
use rmp_serde::decode::Error;

/// Sets a scanner to wait for the first byte of a message of at most `limit` bytes. The status is 0.
#[unsafe(no_mangle)]
pub extern "C" fn rmp_scan_init(state: &mut State, limit: usize) -> u32
    ensures status { result ≡ 0 }
    ensures holds { Holds [] state.new }
    ensures limit { state.new.limit ≡ limit }
{
    let mut scanner = Scanner::new();
    scanner.limit_bytes(limit);
    state.limit = limit as u64;
    keep(&scanner, state);
    0
}

/// Goes through the next piece of a message. The status is 0 if the first `used` bytes of the piece end the message, and 10 if the message
/// goes on after the piece. After 0 the scanner waits for the next message, which what follows in the piece begins.
///
/// The status is 3 at the byte c1, `used` is its offset in the piece then, and 11 if the heads ask for more bytes than the limit. After
/// either the status is 12, as for numbers that are those of no scanner, until `rmp_scan_init` is called.
#[unsafe(no_mangle)]
pub extern "C" fn rmp_scan(state: &mut State, piece: &[u8], used: &mut usize) -> u32
    // By the bytes that the scanner has already and the piece, together.
    ensures law { (before : List ℕ) → Holds before state.old → Scans before piece.now state.old.limit state.new used.new result }
    // 0 exactly where a message within the limit ends in the piece,
    ensures whole { (before : List ℕ) → Holds before state.old → (n : ℕ) → ((result ≡ 0) × (used.new ≡ n))
        ↔ (MessageEnds (before ++ piece.now) (length before + n) × (length before + n ≤ state.old.limit)) }
    // 10 where the bytes are the beginning of one, unless all such messages are too long,
    ensures more { (before : List ℕ) → Holds before state.old → IsBeginning (before ++ piece.now) → (result ≡ 10) ⊎ (result ≡ 11) }
    // and 12 exactly where the numbers are those of no scanner, as after 3 and 11.
    ensures broken { (result ≡ 12) ↔ IsBroken state.old }
    ensures refused { (result ≡ 3) ⊎ (result ≡ 11) → IsBroken state.new }
    ensures limit { state.new.limit ≡ state.old.limit }
    // What isn't set doesn't change.
    ensures kept { result ≡ 12 → state.new ≡ state.old }
    ensures used_kept { result ≢ 0 → result ≢ 3 → used.new ≡ used.old }
{
    let Some(mut scanner) = restore(*state) else {
        return 12;
    };
    match scanner.scan(piece) {
        Ok(Scan::Whole { used: n }) => {
            *used = n;
            keep(&scanner, state);
            0
        }
        Ok(Scan::More) => {
            keep(&scanner, state);
            10
        }
        Err(e) => {
            state.next = REFUSED;
            if is_too_long(&e) {
                return 11;
            }
            *used = scanner.reserved_at().unwrap_or(0);
            3
        }
    }
}

// What comes next after an error.
const REFUSED: u32 = 5;

// The scanner of a state, whose limit has 64 bits.
fn restore(state: State) -> Option<Scanner>
    ensures some { IfSome result (λ s. IsStateOf s state) }
    ensures range { IfSome result (λ s. limit_of s < 2 ^ 64) }
    ensures none { (result ≡ None) ↔ IsBroken state }
{
    Scanner::from_state(&state)
}

// Keeps what the scanner keeps.
fn keep(scanner: &Scanner, state: &mut State)
    ensures is { (bytes : List ℕ) → IsAfter bytes scanner.now → limit_of scanner.now < 2 ^ 64
        → length bytes + least_of scanner.now.want < 2 ^ 64 → IsStateOf scanner.now state.new }
    ensures limit { limit_of scanner.now ≡ state.old.limit → state.new.limit ≡ state.old.limit }
{
    if let Some(next) = scanner.state() {
        *state = next;
    }
}

// Whether the heads ask for more than the limit.
fn is_too_long(e: &Error) -> bool
    ensures { result ≡ is_too_long e.now }
{
    match e {
        Error::Syntax(_) => true,
        _ => false,
    }
}
