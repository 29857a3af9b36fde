//! Whether a message is spelled canonically.
ghost use Rattle.std.specs.Prelude.{◌≡◌, ◌≢◌, ℕ};
ghost use Rattle.rmp_serde.specs.Places.{IsWhole, IsFault, Stops};
ghost use Rattle.rmp_c.specs.Statuses.{status_of};
ghost use Rattle.rmp_decode.specs.declared.error.Error.{Error};

use rmp_serde::decode::Error;
use rmp_serde::{Canon, check_canonical};
use std::alloc::Global;

/// Checks whether the bytes begin with the canonical encoding of a message. What follows the message isn't
/// checked.
///
/// The status is 0 if they do, and `place` is set to the length of that encoding. It is 4 if a head that isn't
/// canonical comes first, and `place` is set to its offset.
///
/// If neither comes first, `place` doesn't change. The status is 1 if the bytes end before a message, 2 if they
/// end inside of a head or its content, and 3 at the byte c1.
#[unsafe(no_mangle)]
pub extern "C" fn rmp_check(alloc: Global, bytes: &[u8], place: &mut usize) -> u32
    ensures whole { result ≡ 0 → IsWhole bytes.now place.new }
    ensures fault { result ≡ 4 → IsFault bytes.now place.new }
    // Each is returned where it is so,
    ensures finds_whole { (n : ℕ) → IsWhole bytes.now n → (result ≡ 0) × (place.new ≡ n) }
    ensures finds_fault { (p : ℕ) → IsFault bytes.now p → (result ≡ 4) × (place.new ≡ p) }
    // and any other status says what is wrong in such a place.
    ensures stops { result ≢ 0 → result ≢ 4 → (e : Error) × (result ≡ status_of e) × Stops bytes.now e }
    ensures kept { result ≢ 0 → result ≢ 4 → place.new ≡ place.old }
{
    match check_canonical(alloc, bytes) {
        Ok(Canon::Whole(len)) => {
            *place = len;
            0
        }
        Ok(Canon::Fault(at)) => {
            *place = at;
            4
        }
        Err(e) => status_of(&e),
    }
}

// The status of an error.
pub(crate) fn status_of(e: &Error) -> u32
    ensures status { result ≡ status_of e.now }
    ensures other { (result ≢ 0) × (result ≢ 4) × (result ≢ 7) × (result ≢ 8) }
{
    match e {
        Error::InvalidMarkerRead(_) => 1,
        Error::InvalidDataRead(_) => 2,
        Error::TypeMismatch(_) => 3,
        Error::Utf8Error(_) => 5,
        Error::DepthLimitExceeded => 6,
        _ => 9,
    }
}
