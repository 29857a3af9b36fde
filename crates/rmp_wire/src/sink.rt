//! Where bytes are written to.
ghost use Rattle.std.specs.Prelude.{◌≡◌, ℕ, ◌≤◌, ◌++◌, ◌↔◌, Bool, true, false, List, [], ◌∷◌, length, take, drop, min};
ghost use Rattle.std.specs.Prelude.{Option, None, Some, Ok, IfOk, IfErr, IsOk};
ghost use Rattle.std.specs.Borrow.{GName};
ghost use Rattle.std.specs.Io.KnownBytes.{WriteAppends};
ghost use Rattle.rmp_wire.specs.Sinks.{PutCounts, Puts, stopped_after};

use crate::error::{IoFault, ValueWriteError};
use std::io;

/// Why a sink took no byte of a piece.
#[derive(Debug, Drop)]
pub enum SinkFault {
    /// The sink failed.
    Io(io::Error),
    /// The sink couldn't allocate memory.
    Memory,
}

/// A sink of bytes, which are written to it a piece at a time.
///
/// A sink that fails takes nothing of that piece, and counts one fault. To be full is a fault as well: the
/// result `Ok(0)` for a piece that isn't empty. To be out of memory is no fault. A sink that can't fail counts
/// none.
pub trait Sink {
    /// Whether the sink allocates memory, and so may be out of memory.
    const TAKES_MEMORY: bool;

    // What `TAKES_MEMORY` says.
    ghost takes_memory: { Bool };

    // The bytes that it has, where the sink tells them.
    ghost told: { Self → Option (List ℕ) } = { λ _. None };

    // How many faults there were; 2 ^ 64 - 1 is followed by 0.
    ghost faults: { Self → ℕ };

    // The references that the sink writes through.
    ghost place: { Self → List GName } = { λ _. [] };

    /// Writes the first bytes of the piece, and returns how many.
    ///
    /// # Errors
    /// `Io` where the sink fails, and `Memory` where a sink that allocates is out of memory. Then nothing is
    /// written.
    fn put(&mut self, piece: &[u8]) -> Result<usize, SinkFault>
        ensures count { IfOk result (λ n. n ≤ length piece.now) }
        ensures bytes { WriteAppends (told self.old) (told self.new) result piece.now }
        ensures counts { PutCounts takes_memory (faults self.old) (faults self.new) piece.now result }
        ensures place { place self.new ≡ place self.old };

    /// Writes the whole piece, and stops at the first fault.
    ///
    /// # Errors
    /// `InvalidMarkerWrite` where the piece's first byte wasn't written, and `InvalidDataWrite` where it was. A
    /// full sink is a fault of the kind `WriteZero`. `OutOfMemory` where memory couldn't be allocated.
    fn put_all(&mut self, piece: &[u8]) -> Result<(), ValueWriteError>
        ensures writes { Puts takes_memory piece.now (told self.old) (told self.new)
            (faults self.old) (faults self.new) result }
        ensures place { place self.new ≡ place self.old }
    {
        let mut at = 0;
        while at < piece.len() {
            match self.put(&piece[at..]) {
                Ok(0) => return Err(stopped(at, IoFault::from(io::ErrorKind::WriteZero))),
                Ok(n) => at += n,
                Err(SinkFault::Io(e)) => return Err(stopped(at, IoFault::from(e))),
                Err(SinkFault::Memory) => return Err(ValueWriteError::OutOfMemory),
            }
        }
        Ok(())
    }
}

// The error of a fault after `taken` bytes of an item.
fn stopped(taken: usize, fault: IoFault) -> ValueWriteError
    ensures { result ≡ stopped_after taken fault }
{
    if taken == 0 {
        ValueWriteError::InvalidMarkerWrite(fault)
    } else {
        ValueWriteError::InvalidDataWrite(fault)
    }
}

/// A reference to a sink is a sink.
impl<S: Sink> Sink for &mut S {
    const TAKES_MEMORY: bool = S::TAKES_MEMORY;

    ghost takes_memory = { S.takes_memory };

    ghost told = { λ w. S.told w.now };

    ghost faults = { λ w. S.faults w.now };

    ghost place = { λ w. w.ghost_name ∷ S.place w.now };

    fn put(&mut self, piece: &[u8]) -> Result<usize, SinkFault> {
        Sink::put(&mut **self, piece)
    }

    #[inline(always)]
    fn put_all(&mut self, piece: &[u8]) -> Result<(), ValueWriteError> {
        Sink::put_all(&mut **self, piece)
    }
}

/// A vector takes each piece whole, unless out of memory.
impl Sink for Vec<u8> {
    const TAKES_MEMORY: bool = true;

    ghost takes_memory = { true };

    ghost told = { λ v. Some v.items };

    ghost faults = { λ _. 0 };

    fn put(&mut self, piece: &[u8]) -> Result<usize, SinkFault>
        ensures count { IfOk result (λ n. n ≤ length piece.now) }
        ensures bytes { WriteAppends (Some self.old.items) (Some self.new.items) result piece.now }
        ensures counts { PutCounts true 0 0 piece.now result }
        ensures whole { IfOk result (λ n. n ≡ length piece.now) }
        ensures memory { IfErr result (λ e. e ≡ SinkFault.Memory) }
    {
        match self.extend_from_slice(piece) {
            Ok(()) => Ok(piece.len()),
            Err(_) => Err(SinkFault::Memory),
        }
    }

    #[inline(always)]
    fn put_all(&mut self, piece: &[u8]) -> Result<(), ValueWriteError> {
        match self.extend_from_slice(piece) {
            Ok(()) => Ok(()),
            Err(_) => Err(ValueWriteError::OutOfMemory),
        }
    }
}

/// A sink that fills a slice from its front, and takes nothing more once it is full.
#[derive(Debug, Drop)]
pub struct SliceSink<'a> {
    buf: &'a mut [u8],
    at: usize,
    faults: u64,
    ghost within: { at ≤ length buf.now },
}

impl<'a> SliceSink<'a> {
    ghost use Rattle.rmp_wire.specs.SliceSink.{written_bytes, unwritten, slice_bytes, slice_name, slice_faults};

    /// Starts at the front of the slice.
    pub fn new(buf: &'a mut [u8]) -> SliceSink<'a>
        ensures same_reference { slice_name result ≡ buf.entry.ghost_name }
        ensures nothing_written { written_bytes result ≡ [] }
        ensures unwritten { unwritten result ≡ buf.old }
        ensures faults { slice_faults result ≡ 0 }
    {
        SliceSink {
            buf,
            at: 0,
            faults: 0,
        }
    }

    /// Returns how many bytes were written, which are the first of the slice.
    pub fn written(&self) -> usize
        ensures count { result ≡ length (written_bytes self.now) }
        ensures front { take result (slice_bytes self.now) ≡ written_bytes self.now }
        ensures rest { drop result (slice_bytes self.now) ≡ unwritten self.now }
    {
        self.at
    }

    // Copies what fits of the piece, and returns how many bytes.
    #[inline(always)]
    fn copy_front(&mut self, piece: &[u8]) -> usize
        ensures count { result ≡ min (length piece.now) (length (unwritten self.old)) }
        ensures bytes { written_bytes self.new ≡ written_bytes self.old ++ take result piece.now }
        ensures rest { unwritten self.new ≡ drop result (unwritten self.old) }
        ensures faults { slice_faults self.new ≡ slice_faults self.old }
        ensures same_reference { slice_name self.new ≡ slice_name self.old }
    {
        let room = self.buf.len() - self.at;
        let n = piece.len().min(room);
        let end = self.at + n;
        let all = &mut *self.buf;
        all[self.at..end].copy_from_slice(&piece[..n]);
        self.at = end;
        n
    }
}

impl Sink for SliceSink<'_> {
    ghost use Rattle.rmp_wire.specs.SliceSink.{written_bytes, unwritten, slice_name, slice_faults};

    const TAKES_MEMORY: bool = false;

    ghost takes_memory = { false };

    ghost told = { λ s. Some (written_bytes s) };

    ghost faults = { slice_faults };

    ghost place = { λ s. slice_name s ∷ [] };

    fn put(&mut self, piece: &[u8]) -> Result<usize, SinkFault>
        ensures count { IfOk result (λ n. n ≤ length piece.now) }
        ensures bytes { WriteAppends (Some (written_bytes self.old)) (Some (written_bytes self.new)) result piece.now }
        ensures counts { PutCounts false (slice_faults self.old) (slice_faults self.new) piece.now result }
        ensures place { slice_name self.new ∷ [] ≡ slice_name self.old ∷ [] }
        ensures rest { IfOk result (λ n. unwritten self.new ≡ drop n (unwritten self.old)) }
        ensures fits { result ≡ Ok (min (length piece.now) (length (unwritten self.old))) }
    {
        let n = self.copy_front(piece);
        if n == 0 && !piece.is_empty() {
            self.faults = self.faults.wrapping_add(1);
        }
        Ok(n)
    }

    #[inline(always)]
    fn put_all(&mut self, piece: &[u8]) -> Result<(), ValueWriteError>
        ensures writes { Puts false piece.now (Some (written_bytes self.old)) (Some (written_bytes self.new))
            (slice_faults self.old) (slice_faults self.new) result }
        ensures place { slice_name self.new ∷ [] ≡ slice_name self.old ∷ [] }
        ensures fits { IsOk result ↔ (length piece.now ≤ length (unwritten self.old)) }
        ensures rest { unwritten self.new ≡ drop (length piece.now) (unwritten self.old) }
    {
        let n = self.copy_front(piece);
        if n == piece.len() {
            return Ok(());
        }
        self.faults = self.faults.wrapping_add(1);
        Err(stopped(n, IoFault::from(io::ErrorKind::WriteZero)))
    }
}
