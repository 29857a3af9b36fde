//! The message after the one at an offset.
ghost use Rattle.std.specs.Prelude.{◌≡◌, ◌≢◌, ◌↔◌, ◌⊎◌, ℕ, [], ◌+◌, drop};
ghost use Rattle.rmp_scan.specs.Scans.{IsBeginning, MessageEnds, NoMessage};

use rmp_serde::message_len;

/// Finds where the message at the offset `at` ends, and sets `next` to the offset after it. The message may nest to any depth, and
/// its texts needn't be UTF-8.
///
/// The status is 1 if the bytes end at the offset or before it, 2 if they end inside the message, and 3 if the byte c1 is in the
/// place of a message. Then `next` doesn't change.
#[unsafe(no_mangle)]
pub extern "C" fn rmp_skip(bytes: &[u8], at: usize, next: &mut usize) -> u32
    ensures whole { (n : ℕ) → ((result ≡ 0) × (next.new ≡ at + n)) ↔ MessageEnds (drop at bytes.now) n }
    ensures end { (result ≡ 1) ↔ (drop at bytes.now ≡ []) }
    ensures cut { (result ≡ 2) ↔ ((drop at bytes.now ≢ []) × IsBeginning (drop at bytes.now)) }
    ensures reserved { (result ≡ 3) ↔ NoMessage (drop at bytes.now) }
    ensures status { (result ≡ 0) ⊎ (result ≡ 1) ⊎ (result ≡ 2) ⊎ (result ≡ 3) }
    ensures kept { result ≢ 0 → next.new ≡ next.old }
{
    let rest = bytes_from(bytes, at);
    match message_len(rest) {
        Ok(Some(len)) => {
            *next = at + len;
            0
        }
        Ok(None) if rest.is_empty() => 1,
        Ok(None) => 2,
        Err(_) => 3,
    }
}

// The bytes from an offset on: none where it is past the end.
fn bytes_from(bytes: &[u8], at: usize) -> &[u8]
    ensures { result.now ≡ drop at bytes.now }
{
    bytes.get(at..).unwrap_or(&[])
}
