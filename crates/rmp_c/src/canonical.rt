//! The canonical encoding of a message.
ghost use Rattle.std.specs.Prelude.{◌≡◌, ◌≢◌, ◌<◌, ◌⊎◌, ℕ, List, IfOk, IfErr, length};
ghost use Rattle.rmp_c.specs.Respelled.{Respelled, WritesInto, HasMore, HasNoRoom, NoValue, SaysWhy};

use crate::check::status_of;
use rmp_serde::{Deserializer, Value, laws, to_vec};
use std::alloc::Global;

/// Writes the canonical encoding of a message to the front of `out`, and sets `len` to its length. The message
/// may be encoded in any widths. Its canonical encoding is never longer.
///
/// The status is 1 if the bytes end before a message, 2 if they end inside of a head or its content, and 3 at
/// the byte c1. It is 5 at a text that isn't UTF-8, 6 if lists and maps nest to 1024, and 7 if more bytes
/// follow the message. It is 8 if `out` is too short; then `len` is the length that it needs. It is 9 out of
/// memory.
#[unsafe(no_mangle)]
pub extern "C" fn rmp_canonical(alloc: Global, bytes: &[u8], out: &mut [u8], len: &mut usize) -> u32
    ensures written { result ≡ 0 → WritesInto bytes.now len.new out.new }
    // Otherwise `len` is the length of the encoding, which `out` has no room for,
    ensures short { result ≡ 8 → (length out.new < len.new) × ((spelled : List ℕ) × Respelled bytes.now spelled × (len.new ≡ length spelled)) }
    // or the bytes after the message make the bytes no message,
    ensures longer { result ≡ 7 → HasMore bytes.now }
    // or memory ran out, or the bytes begin with no message that nests below 1024 and whose texts are UTF-8.
    ensures refused { result ≢ 0 → result ≢ 7 → result ≢ 8 → result ≢ 9 → NoValue bytes.now }
    // Which status it is says what is wrong first, and where.
    ensures refusal { result ≢ 0 → result ≢ 7 → result ≢ 8 → SaysWhy bytes.now result ⊎ HasNoRoom bytes.now result }
    ensures room { length out.new ≡ length out.old }
    // What isn't set doesn't change.
    ensures kept { result ≢ 0 → out.new ≡ out.old }
    ensures len_kept { result ≢ 0 → result ≢ 8 → len.new ≡ len.old }
{
    match spelled_again(alloc, bytes) {
        Ok(spelled) => {
            let n = spelled.len();
            *len = n;
            if n > out.len() {
                return 8;
            }
            out[..n].copy_from_slice(spelled.as_slice());
            0
        }
        Err(status) => status,
    }
}

// The canonical encoding, or the status that says why there is none.
fn spelled_again(alloc: Global, bytes: &[u8]) -> Result<Vec<u8>, u32>
    ensures ok { IfOk result (λ spelled. Respelled bytes.now spelled.items) }
    ensures err { IfErr result (λ status. (status ≢ 0) × (status ≢ 8)) }
    ensures longer { IfErr result (λ status. status ≡ 7 → HasMore bytes.now) }
    ensures refused { IfErr result (λ status. status ≢ 7 → status ≢ 9 → NoValue bytes.now) }
    ensures refusal { IfErr result (λ status. status ≢ 7 → SaysWhy bytes.now status ⊎ HasNoRoom bytes.now status) }
{
    let mut de = Deserializer::from_read_ref(alloc, bytes);
    let value = match Value::read(&mut de) {
        Ok(value) => value,
        Err(e) => return Err(status_of(&e)),
    };
    if !de.remaining_slice().is_empty() {
        return Err(7);
    }
    laws::value_is_its_tree();
    match to_vec(alloc, &value) {
        Ok(spelled) => Ok(spelled),
        Err(_) => Err(9),
    }
}
