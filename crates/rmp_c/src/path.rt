//! The path to the part of a message that an offset is in.
ghost use Rattle.std.specs.Prelude.{◌≡◌, ◌≢◌, ◌⊎◌, List, ℕ, length, string_bytes, IfOk};
ghost use Rattle.rmp_c.specs.PathTexts.{IsPathText};
ghost use Rattle.rmp_c.specs.Puts.{IsPut, NoRoom};

use crate::put::put;
use rmp_serde::path_at;
use std::alloc::{AllocError, Global};

/// Finds the part of a message that the offset is in, and puts the path to it into the buffer, as `rmp_put_nil` puts nil: a text
/// as `.origin.pid` or `.tags[1]`, with no zero after it. `place` is set to the offset where the part begins. The bytes are one
/// message, or several that follow one another, and may be cut: then it is the innermost part that is.
///
/// The status is 8 if the buffer is too short. It is 9 out of memory, and then nothing changes.
#[unsafe(no_mangle)]
pub extern "C" fn rmp_path(
    alloc: Global,
    bytes: &[u8],
    offset: usize,
    out: &mut [u8],
    at: &mut usize,
    place: &mut usize,
) -> u32
    ensures written { result ≡ 0 → (path : List ℕ) × IsPathText bytes.now offset path place.new × IsPut path at.old at.new out.old out.new }
    ensures short { result ≡ 8 → (path : List ℕ) × IsPathText bytes.now offset path place.new × NoRoom path at.old at.new (length out.old) }
    ensures kept { result ≢ 0 → out.new ≡ out.old }
    ensures at_kept { result ≡ 9 → at.new ≡ at.old }
    ensures place_kept { result ≡ 9 → place.new ≡ place.old }
    ensures status { (result ≡ 0) ⊎ (result ≡ 8) ⊎ (result ≡ 9) }
{
    let Ok((path, start)) = path_text(alloc, bytes, offset) else {
        return 9;
    };
    *place = start;
    put(out, at, path.as_bytes(), &[])
}

// The text of the path to the part that the offset is in, and the offset where that part begins.
fn path_text(alloc: Global, bytes: &[u8], offset: usize) -> Result<(String, usize), AllocError>
    ensures { IfOk result (λ r. IsPathText bytes.now offset (string_bytes r.0) r.1) }
{
    let path = path_at(alloc, bytes, offset)?;
    let text = format!(in alloc; "{path}")?;
    Ok((text, path.place()))
}
