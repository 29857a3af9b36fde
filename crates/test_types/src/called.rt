//! What a caller that owns a slice knows of it once the sink is gone.
ghost use Rattle.std.specs.Prelude.{◌≡◌, ◌≢◌, IfOk, IfErr, length, take, pos};
ghost use Rattle.rmp_wire.specs.Heads.{canon_head};
ghost use Rattle.rmp_wire.specs.declared.head.Head.TheVariants.{Whole};

use rmp_wire::{SliceSink, ValueWriteError, write_uint};

/// Writes a number from 0 on into the front of a slice, in its shortest spelling, and says how many bytes it takes there.
///
/// # Errors
/// `InvalidMarkerWrite` or `InvalidDataWrite` where the slice has no room for it; never want of memory.
pub fn spell_into(buf: &mut [u8], n: u64) -> Result<usize, ValueWriteError>
    ensures spelled { IfOk result (λ len. take len buf.new ≡ canon_head (Whole (pos n))) }
    ensures count { IfOk result (λ len. len ≡ length (canon_head (Whole (pos n)))) }
    ensures memory { IfErr result (λ e. e ≢ ValueWriteError.OutOfMemory) }
{
    let mut sink = SliceSink::new(buf);
    write_uint(&mut sink, n)?;
    Ok(sink.written())
}
