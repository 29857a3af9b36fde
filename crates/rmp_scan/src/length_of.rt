//! Finds how long the message at the front of an input is.
ghost use Rattle.std.specs.Prelude.{◌≡◌, ◌↔◌, ℕ, Ok, Some, None, IfErr};
ghost use Rattle.rmp_wire.specs.declared.marker.Marker.TheVariants as marker;
ghost use Rattle.rmp_scan.specs.Scans.{IsBeginning, MessageEnds};

use crate::scanner::{Scan, Scanner};
use rmp_decode::Error;

/// Returns the length of the message at the front of the input, in bytes, or `None` if the input ends before the
/// message does.
///
/// It allocates nothing, and skips payload. Lists and maps may nest to any depth, and texts needn't be UTF-8.
///
/// # Errors
/// `TypeMismatch(Reserved)` if neither a message nor the beginning of one is at the front: the byte c1 is in the place
/// of a message. `Scanner::reserved_at` returns where.
///
/// # Examples
/// ```
/// use rmp_serde::message_len;
///
/// assert_eq!(rt; message_len(&[0x92, 0x05, 0xa1, 0x61, 0xc0])?, Some(4));
/// // the text's byte is missing
/// assert_eq!(rt; message_len(&[0x92, 0x05, 0xa1])?, None);
/// assert!(rt; message_len(&[0x92, 0xc1]).is_err());
/// ```
pub fn message_len(input: &[u8]) -> Result<Option<usize>, Error>
    ensures whole { (n : ℕ) → (result ≡ Ok (Some n)) ↔ MessageEnds input.now n }
    ensures more { (result ≡ Ok None) ↔ IsBeginning input.now }
    ensures reserved { IfErr result (λ e. e ≡ Error.TypeMismatch marker.Reserved) }
{
    let mut scanner = Scanner::new();
    match scanner.scan(input) {
        Ok(Scan::Whole { used }) => Ok(Some(used)),
        Ok(Scan::More) => Ok(None),
        Err(e) => Err(e),
    }
}
