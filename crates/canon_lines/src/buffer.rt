//! A buffer before a sink, in place of the kit's `BufWriter`, which takes some 88 instructions more for each line.
ghost use Rattle.std.specs.Prelude.{◌≡◌, ◌≤◌, ◌<◌, ◌+◌, ◌-◌, ◌++◌, [], true, drop, length, take, vec_len, vec_capacity, IfOk, OnOk};
ghost use Rattle.std.specs.Io.KnownBytes.{Appends, Keeps, WriteAppends};
ghost use Rattle.rmp_wire.specs.Sinks.{PutCounts, Puts};
ghost use Rattle.canon_lines.specs.Buffers.{held_in, sink_of, told_with, SendCounts};

use rmp_serde::wire::{IoFault, Sink, SinkFault, ValueWriteError};
use std::alloc::{AllocError, Global};
use std::io::ErrorKind;

// How many bytes are held at most.
const CAPACITY: usize = 8192;

/// A sink that holds what is written to it, and writes it to another sink where the next piece doesn't fit, or by `flush`. Nothing is
/// flushed when it is dropped.
#[derive(Drop)]
pub struct BufSink<W> {
    sink: W,
    held: Vec<u8>,
}

// Writes bytes to a sink. Returns how many it took, and whether that is all of them, or why it took no more.
fn write_out<W: Sink>(bytes: &[u8], sink: &mut W) -> (usize, Result<bool, SinkFault>)
    ensures bound { result.0 ≤ length bytes.now }
    ensures all { IfOk result.1 (λ all. all ≡ true → result.0 ≡ length bytes.now) }
    ensures bytes { Appends (W.told sink.old) (W.told sink.new) (take result.0 bytes.now) }
    ensures counts { SendCounts W.takes_memory (W.faults sink.old) (W.faults sink.new) result.1 }
    ensures place { W.place sink.new ≡ W.place sink.old }
{
    let mut written = 0;
    while written < bytes.len() {
        match sink.put(&bytes[written..]) {
            Ok(0) => return (written, Ok(false)),
            Ok(n) => written += n,
            Err(e) => return (written, Err(e)),
        }
    }
    (written, Ok(true))
}

/// Removes the first bytes.
pub fn remove_front(bytes: &mut Vec<u8>, count: usize)
    requires within { count ≤ vec_len bytes.old }
    ensures items { bytes.new.items ≡ drop count bytes.old.items }
    ensures capacity { vec_capacity bytes.new ≡ vec_capacity bytes.old }
{
    let len = bytes.len();
    bytes.as_mut_slice().copy_within(count..len, 0);
    bytes.truncate(len - count);
}

// Appends bytes for which there is room.
#[inline(always)]
fn append(held: &mut Vec<u8>, piece: &[u8])
    requires room { vec_len held.old + length piece.now ≤ vec_capacity held.old }
    ensures items { held.new.items ≡ held.old.items ++ piece.now }
{
    let Ok(()) = held.extend_from_slice(piece) else {
        unreachable!()
    };
}

impl<W: Drop> BufSink<W> {
    /// Writes to `sink`.
    pub fn new(alloc: Global, sink: W) -> Result<BufSink<W>, AllocError>
        ensures sink { IfOk result (λ s. sink_of s ≡ sink) }
        ensures empty { IfOk result (λ s. held_in s ≡ []) }
    {
        let held = Vec::with_capacity(alloc, CAPACITY)?;
        Ok(BufSink { sink, held })
    }
}

impl<W: Sink> BufSink<W> {
    /// Writes what is held to the sink, and says whether the sink took all. What it didn't take is held.
    ///
    /// # Errors
    /// Those of the sink's `put`.
    pub fn flush(&mut self) -> Result<bool, SinkFault>
        ensures bytes { Keeps (told_with W.Sink self.old) (told_with W.Sink self.new) }
        ensures empty { IfOk result (λ all. all ≡ true → held_in self.new ≡ []) }
        ensures counts { SendCounts W.takes_memory (W.faults (sink_of self.old)) (W.faults (sink_of self.new)) result }
        ensures place { W.place (sink_of self.new) ≡ W.place (sink_of self.old) }
    {
        let (written, answer) = write_out(self.held.as_slice(), &mut self.sink);
        remove_front(&mut self.held, written);
        answer
    }

    // A piece for which there is no room.
    #[inline(never)]
    fn put_more(&mut self, piece: &[u8]) -> Result<usize, SinkFault>
        requires some { 0 < length piece.now }
        ensures count { IfOk result (λ n. n ≤ length piece.now) }
        ensures bytes { WriteAppends (told_with W.Sink self.old) (told_with W.Sink self.new) result piece.now }
        ensures counts { PutCounts W.takes_memory (W.faults (sink_of self.old)) (W.faults (sink_of self.new)) piece.now result }
        ensures place { W.place (sink_of self.new) ≡ W.place (sink_of self.old) }
    {
        match self.flush() {
            Ok(true) => {}
            Ok(false) => return Ok(0),
            Err(e) => return Err(e),
        }
        if piece.len() > self.held.capacity() - self.held.len() {
            return self.sink.put(piece);
        }
        append(&mut self.held, piece);
        Ok(piece.len())
    }
}

impl<W: Sink> BufSink<W> {
    // The same, for the whole piece.
    #[inline(never)]
    fn put_all_more(&mut self, piece: &[u8]) -> Result<(), ValueWriteError>
        ensures writes { Puts W.takes_memory piece.now (told_with W.Sink self.old) (told_with W.Sink self.new)
            (W.faults (sink_of self.old)) (W.faults (sink_of self.new)) result }
        ensures place { W.place (sink_of self.new) ≡ W.place (sink_of self.old) }
    {
        match self.flush() {
            Ok(true) => {}
            Ok(false) => {
                let full = IoFault::from(ErrorKind::WriteZero);
                return Err(ValueWriteError::InvalidMarkerWrite(full));
            }
            Err(SinkFault::Io(e)) => {
                return Err(ValueWriteError::InvalidMarkerWrite(IoFault::from(e)));
            }
            Err(SinkFault::Memory) => return Err(ValueWriteError::OutOfMemory),
        }
        if piece.len() > self.held.capacity() - self.held.len() {
            return self.sink.put_all(piece);
        }
        append(&mut self.held, piece);
        Ok(())
    }
}

/// Each piece that fits is held whole.
impl<W: Sink> Sink for BufSink<W> {
    const TAKES_MEMORY: bool = W::TAKES_MEMORY;

    ghost takes_memory = { W.takes_memory };

    ghost told = { told_with W.Sink };

    ghost faults = { λ s. W.faults (sink_of s) };

    ghost place = { λ s. W.place (sink_of s) };

    #[inline(always)]
    fn put(&mut self, piece: &[u8]) -> Result<usize, SinkFault> {
        if piece.len() > self.held.capacity() - self.held.len() {
            return self.put_more(piece);
        }
        append(&mut self.held, piece);
        Ok(piece.len())
    }

    #[inline(always)]
    fn put_all(&mut self, piece: &[u8]) -> Result<(), ValueWriteError> {
        if piece.len() > self.held.capacity() - self.held.len() {
            return self.put_all_more(piece);
        }
        append(&mut self.held, piece);
        Ok(())
    }
}
