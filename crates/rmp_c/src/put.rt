//! Messages that are put into a buffer, one after the other.
#![tactic(auto, unfolding(rmp_wire::specs::Heads::fits_head))]

ghost use Rattle.std.specs.Prelude.{◌≡◌, ◌≢◌, ◌↔◌, ◌⊎◌, ◌≤◌, ◌<◌, ◌^◌, ◌++◌, length, pos};
ghost use Rattle.rmp_wire.specs.Heads.{canon_head, fits_head};
ghost use Rattle.rmp_wire.specs.Msg.{nil, truth, whole, float32, float64, text, bin, extension};
ghost use Rattle.rmp_wire.specs.Spelling.{canon};
ghost use Rattle.rmp_wire.specs.declared.head.Head.TheVariants.{Array, Map};
ghost use Rattle.rmp_c.specs.Puts.{IsPut, NoRoom};

use crate::head::HeadBytes;
use rmp_wire::Head;

/// Puts nil into the buffer at the offset `at`, and moves `at` after it.
///
/// The status is 8 if the buffer is too short. Then nothing is written, and `at` moves to where the message would
/// have ended, so a program may go on to add up the length that it needs.
#[unsafe(no_mangle)]
pub extern "C" fn rmp_put_nil(out: &mut [u8], at: &mut usize) -> u32
    ensures written { result ≡ 0 → IsPut (canon nil) at.old at.new out.old out.new }
    ensures short { result ≡ 8 → NoRoom (canon nil) at.old at.new (length out.old) }
    ensures kept { result ≢ 0 → out.new ≡ out.old }
    ensures status { (result ≡ 0) ⊎ (result ≡ 8) }
{
    put_head(out, at, Head::Nil)
}

/// Puts `true` or `false`, as `rmp_put_nil` puts nil.
#[unsafe(no_mangle)]
pub extern "C" fn rmp_put_bool(out: &mut [u8], at: &mut usize, value: bool) -> u32
    ensures written { result ≡ 0 → IsPut (canon (truth value)) at.old at.new out.old out.new }
    ensures short { result ≡ 8 → NoRoom (canon (truth value)) at.old at.new (length out.old) }
    ensures kept { result ≢ 0 → out.new ≡ out.old }
    ensures status { (result ≡ 0) ⊎ (result ≡ 8) }
{
    put_head(out, at, Head::Truth(value))
}

/// Puts an integer from 0 on, in its shortest encoding, as `rmp_put_nil` puts nil.
#[unsafe(no_mangle)]
pub extern "C" fn rmp_put_uint(out: &mut [u8], at: &mut usize, n: u64) -> u32
    ensures written { result ≡ 0 → IsPut (canon (whole (pos n))) at.old at.new out.old out.new }
    ensures short { result ≡ 8 → NoRoom (canon (whole (pos n))) at.old at.new (length out.old) }
    ensures kept { result ≢ 0 → out.new ≡ out.old }
    ensures status { (result ≡ 0) ⊎ (result ≡ 8) }
{
    put_head(out, at, Head::Whole(i128::from(n)))
}

/// Puts an integer, in its shortest encoding, as `rmp_put_nil` puts nil.
#[unsafe(no_mangle)]
pub extern "C" fn rmp_put_int(out: &mut [u8], at: &mut usize, number: i64) -> u32
    ensures written { result ≡ 0 → IsPut (canon (whole number)) at.old at.new out.old out.new }
    ensures short { result ≡ 8 → NoRoom (canon (whole number)) at.old at.new (length out.old) }
    ensures kept { result ≢ 0 → out.new ≡ out.old }
    ensures status { (result ≡ 0) ⊎ (result ≡ 8) }
{
    put_head(out, at, Head::Whole(i128::from(number)))
}

/// Puts a 32-bit float, by its bits, as `rmp_put_nil` puts nil.
#[unsafe(no_mangle)]
pub extern "C" fn rmp_put_f32_bits(out: &mut [u8], at: &mut usize, bits: u32) -> u32
    ensures written { result ≡ 0 → IsPut (canon (float32 bits)) at.old at.new out.old out.new }
    ensures short { result ≡ 8 → NoRoom (canon (float32 bits)) at.old at.new (length out.old) }
    ensures kept { result ≢ 0 → out.new ≡ out.old }
    ensures status { (result ≡ 0) ⊎ (result ≡ 8) }
{
    put_head(out, at, Head::F32Bits(bits))
}

/// Puts a 64-bit float, by its bits, as `rmp_put_nil` puts nil.
#[unsafe(no_mangle)]
pub extern "C" fn rmp_put_f64_bits(out: &mut [u8], at: &mut usize, bits: u64) -> u32
    ensures written { result ≡ 0 → IsPut (canon (float64 bits)) at.old at.new out.old out.new }
    ensures short { result ≡ 8 → NoRoom (canon (float64 bits)) at.old at.new (length out.old) }
    ensures kept { result ≢ 0 → out.new ≡ out.old }
    ensures status { (result ≡ 0) ⊎ (result ≡ 8) }
{
    put_head(out, at, Head::F64Bits(bits))
}

/// Puts the head of a list of `len` elements, as `rmp_put_nil` puts nil. The elements follow, each by a
/// call of its own.
#[unsafe(no_mangle)]
pub extern "C" fn rmp_put_array(out: &mut [u8], at: &mut usize, len: u32) -> u32
    ensures written { result ≡ 0 → IsPut (canon_head (Array len)) at.old at.new out.old out.new }
    ensures short { result ≡ 8 → NoRoom (canon_head (Array len)) at.old at.new (length out.old) }
    ensures kept { result ≢ 0 → out.new ≡ out.old }
    ensures status { (result ≡ 0) ⊎ (result ≡ 8) }
{
    put_head(out, at, Head::Array(len))
}

/// Puts the head of a map of `len` pairs, as `rmp_put_nil` puts nil. The pairs follow: each key,
/// and then its value.
#[unsafe(no_mangle)]
pub extern "C" fn rmp_put_map(out: &mut [u8], at: &mut usize, len: u32) -> u32
    ensures written { result ≡ 0 → IsPut (canon_head (Map len)) at.old at.new out.old out.new }
    ensures short { result ≡ 8 → NoRoom (canon_head (Map len)) at.old at.new (length out.old) }
    ensures kept { result ≢ 0 → out.new ≡ out.old }
    ensures status { (result ≡ 0) ⊎ (result ≡ 8) }
{
    put_head(out, at, Head::Map(len))
}

/// Puts a text. It isn't checked that its bytes are UTF-8. The statuses are those of `rmp_put_nil`, and 13 if there are
/// 2^32 bytes or more: then nothing changes.
#[unsafe(no_mangle)]
pub extern "C" fn rmp_put_str(out: &mut [u8], at: &mut usize, payload: &[u8]) -> u32
    ensures written { result ≡ 0 → IsPut (canon (text payload.now)) at.old at.new out.old out.new }
    ensures short { result ≡ 8 → NoRoom (canon (text payload.now)) at.old at.new (length out.old) }
    ensures kept { result ≢ 0 → out.new ≡ out.old }
    ensures large { (result ≡ 13) ↔ (2 ^ 32 ≤ length payload.now) }
    ensures large_kept { result ≡ 13 → at.new ≡ at.old }
    ensures status { (result ≡ 0) ⊎ (result ≡ 8) ⊎ (result ≡ 13) }
{
    match u32::try_from(payload.len()) {
        Ok(len) => put(out, at, HeadBytes::of(Head::Text(len)).as_slice(), payload),
        Err(_) => TOO_LARGE,
    }
}

/// Puts bytes. The statuses are those of `rmp_put_nil`, and 13 if there are
/// 2^32 bytes or more: then nothing changes.
#[unsafe(no_mangle)]
pub extern "C" fn rmp_put_bin(out: &mut [u8], at: &mut usize, payload: &[u8]) -> u32
    ensures written { result ≡ 0 → IsPut (canon (bin payload.now)) at.old at.new out.old out.new }
    ensures short { result ≡ 8 → NoRoom (canon (bin payload.now)) at.old at.new (length out.old) }
    ensures kept { result ≢ 0 → out.new ≡ out.old }
    ensures large { (result ≡ 13) ↔ (2 ^ 32 ≤ length payload.now) }
    ensures large_kept { result ≡ 13 → at.new ≡ at.old }
    ensures status { (result ≡ 0) ⊎ (result ≡ 8) ⊎ (result ≡ 13) }
{
    match u32::try_from(payload.len()) {
        Ok(len) => put(out, at, HeadBytes::of(Head::Bin(len)).as_slice(), payload),
        Err(_) => TOO_LARGE,
    }
}

/// Puts an extension: its type and its payload. The statuses are those of `rmp_put_nil`, and 13 if there are
/// 2^32 bytes or more: then nothing changes.
#[unsafe(no_mangle)]
pub extern "C" fn rmp_put_ext(out: &mut [u8], at: &mut usize, tag: i8, payload: &[u8]) -> u32
    ensures written { result ≡ 0 → IsPut (canon (extension tag payload.now)) at.old at.new out.old out.new }
    ensures short { result ≡ 8 → NoRoom (canon (extension tag payload.now)) at.old at.new (length out.old) }
    ensures kept { result ≢ 0 → out.new ≡ out.old }
    ensures large { (result ≡ 13) ↔ (2 ^ 32 ≤ length payload.now) }
    ensures large_kept { result ≡ 13 → at.new ≡ at.old }
    ensures status { (result ≡ 0) ⊎ (result ≡ 8) ⊎ (result ≡ 13) }
{
    match u32::try_from(payload.len()) {
        Ok(len) => put(
            out,
            at,
            HeadBytes::of(Head::Ext(len, tag)).as_slice(),
            payload,
        ),
        Err(_) => TOO_LARGE,
    }
}

// The status of a payload that is longer than a head can say.
const TOO_LARGE: u32 = 13;

// Puts a head that has no payload.
fn put_head(out: &mut [u8], at: &mut usize, head: Head) -> u32
    ensures written { fits_head head → result ≡ 0 → IsPut (canon_head head) at.old at.new out.old out.new }
    ensures short { fits_head head → result ≡ 8 → NoRoom (canon_head head) at.old at.new (length out.old) }
    ensures kept { result ≢ 0 → out.new ≡ out.old }
    ensures status { (result ≡ 0) ⊎ (result ≡ 8) }
{
    put(out, at, HeadBytes::of(head).as_slice(), &[])
}

// Puts a head and its payload.
pub(crate) fn put(out: &mut [u8], at: &mut usize, head: &[u8], payload: &[u8]) -> u32
    ensures written { result ≡ 0 → IsPut (head.now ++ payload.now) at.old at.new out.old out.new }
    ensures short { result ≡ 8 → NoRoom (head.now ++ payload.now) at.old at.new (length out.old) }
    ensures kept { result ≢ 0 → out.new ≡ out.old }
    ensures status { (result ≡ 0) ⊎ (result ≡ 8) }
{
    let start = *at;
    let middle = start.saturating_add(head.len());
    let end = middle.saturating_add(payload.len());
    *at = end;
    if end > out.len() {
        return 8;
    }
    out[start..middle].copy_from_slice(head);
    out[middle..end].copy_from_slice(payload);
    0
}
