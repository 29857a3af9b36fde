//! The bytes of a canonical head.
ghost use Rattle.std.specs.Prelude.{◌≡◌, ◌≢◌, ◌≤◌, false, Some, [], length};
ghost use Rattle.rmp_wire.specs.Heads.{canon_head, fits_head};
ghost use Rattle.rmp_wire.specs.Writing.{Writes};

use rmp_wire::write::{
    write_array_len, write_bin_len, write_bool, write_ext_meta, write_f32_bits, write_f64_bits,
    write_map_len, write_nil, write_sint, write_str_len, write_uint,
};
use rmp_wire::{Head, Sink, SinkFault, ValueWriteError};

// The length of the longest canonical head, that of a number of 64 bits.
const LONGEST: usize = 9;

// The bytes of a head, as a sink that has room for any.
#[derive(Drop)]
pub(crate) struct HeadBytes {
    bytes: [u8; 9],
    len: usize,
    faults: u64,
    ghost sized: { length bytes ≡ 9 },
    ghost within: { len ≤ 9 },
    // It fails only when it is full.
    ghost full: { faults ≢ 0 → len ≡ 9 },
}

impl HeadBytes {
    ghost use Rattle.rmp_c.specs.HeadBytes.{head_bytes};

    // The canonical encoding of a head.
    pub(crate) fn of(head: Head) -> HeadBytes
        ensures bytes { fits_head head → head_bytes result ≡ canon_head head }
    {
        let mut bytes = HeadBytes {
            bytes: [0; LONGEST],
            len: 0,
            faults: 0,
        };
        let _ = write_head(&mut bytes, head);
        bytes
    }

    pub(crate) fn as_slice(&self) -> &[u8]
        ensures { result.now ≡ head_bytes self.now }
    {
        &self.bytes[..self.len]
    }
}

impl Sink for HeadBytes {
    ghost use Rattle.rmp_c.specs.HeadBytes.{head_bytes};

    const TAKES_MEMORY: bool = false;

    ghost takes_memory = { false };

    ghost told = { λ h. Some (head_bytes h) };

    ghost faults = { λ h. h.faults };

    fn put(&mut self, piece: &[u8]) -> Result<usize, SinkFault> {
        let n = piece.len().min(LONGEST - self.len);
        let end = self.len + n;
        self.bytes[self.len..end].copy_from_slice(&piece[..n]);
        self.len = end;
        if n == 0 && !piece.is_empty() {
            self.faults = self.faults.wrapping_add(1);
        }
        Ok(n)
    }
}

// Writes the canonical encoding of a head.
#[tactic(auto, unfolding(rmp_wire::specs::Heads::fits_head))]
fn write_head<W: Sink>(sink: &mut W, head: Head) -> Result<(), ValueWriteError>
    ensures writes { fits_head head → Writes W.Sink (canon_head head) sink.old sink.new result }
{
    match head {
        Head::Nil => write_nil(sink),
        Head::Truth(truth) => write_bool(sink, truth),
        Head::Whole(z) => match u64::try_from(z) {
            Ok(n) => write_uint(sink, n),
            Err(_) => write_sint(sink, i64::try_from(z).unwrap_or(0)),
        },
        Head::F32Bits(bits) => write_f32_bits(sink, bits),
        Head::F64Bits(bits) => write_f64_bits(sink, bits),
        Head::Text(len) => write_str_len(sink, len),
        Head::Bin(len) => write_bin_len(sink, len),
        Head::Array(len) => write_array_len(sink, len),
        Head::Map(len) => write_map_len(sink, len),
        Head::Ext(len, tag) => write_ext_meta(sink, len, tag),
    }
}
