//! A source that reads ahead, into a buffer of its own.
ghost use Rattle.std.specs.Prelude.{◌≡◌, ◌<◌, ◌≤◌, [], IfOk, OnOk, OnErr, IsTrue, false, take, length, min};
ghost use Rattle.std.specs.Io.KnownBytes.{Consumes, IsAtEnd, Keeps};
ghost use Rattle.rmp_wire.specs.ReadAhead.{faults_after, held_of, reader_after, told_ahead};
ghost use Rattle.rmp_wire.specs.Sources.{IsFront, Skips};
ghost use Rattle.rmp_wire.specs.Sinks.{next_fault};

mod held;

use crate::read_ahead::held::Held;
use crate::source::Source;
use crate::stream::IoSource;
use std::alloc::Global;
use std::io;
use std::io::Read;

/// A reader as a source with its own buffer, which it fills by reading ahead. Reads come straight from the
/// buffer, so they are as fast as from memory, except for filling it.
///
/// The buffer starts with 1024 bytes and doubles each time that a read has filled it, up to 8192 bytes. So a
/// short message needs little memory. Out of memory, the buffer keeps its size; if it has none, reads go directly
/// to the reader.
///
/// It tells which bytes remain if the reader does. An interrupted read is retried, at most 16 times in a row.
#[derive(Drop)]
pub struct AheadSource<R> {
    source: IoSource<R>,
    held: Held,
}

impl<R> AheadSource<R> {
    /// Reads from `reader`. Memory for the buffer comes from `alloc`, from the first read on.
    pub fn new(alloc: Global, reader: R) -> AheadSource<R>
        ensures reader { reader_after result ≡ reader }
        ensures held { held_of result ≡ [] }
        ensures faults { faults_after result ≡ 0 }
    {
        AheadSource {
            source: IoSource::new(reader),
            held: Held::new(alloc),
        }
    }

    /// Returns the reader, from which the buffered bytes were already read.
    pub fn get_ref(&self) -> &R
        ensures { result.now ≡ reader_after self.now }
    {
        self.source.get_ref()
    }

    /// Returns the bytes that are buffered and not yet consumed.
    pub fn buffer(&self) -> &[u8]
        ensures { result.now ≡ held_of self.now }
    {
        self.held.as_slice()
    }

    /// Returns the reader. Buffered bytes are lost.
    pub fn into_inner(self) -> R
        ensures { result ≡ reader_after self }
    {
        self.source.into_inner()
    }
}

impl<R: Read> AheadSource<R> {
    // Moves bytes out of the buffer.
    #[inline(always)]
    fn take_held(&mut self, buf: &mut [u8]) -> usize
        ensures size { length buf.new ≡ length buf.old }
        ensures count { result ≡ min (length (held_of self.old)) (length buf.new) }
        ensures bytes { Consumes (told_ahead R.remaining self.old) (told_ahead R.remaining self.new) (take result buf.new) }
        ensures faults { faults_after self.new ≡ faults_after self.old }
    {
        self.held.take_into(buf)
    }

    // Reads where the buffer is empty. A piece as large as the buffer is read past it.
    #[inline(never)]
    fn pull_more(&mut self, buf: &mut [u8]) -> Result<usize, io::Error>
        requires empty { held_of self.old ≡ [] }
        ensures bound { IfOk result (λ n. n ≤ length buf.new) }
        ensures bytes { IfOk result (λ n. Consumes (told_ahead R.remaining self.old) (told_ahead R.remaining self.new) (take n buf.new)) }
        ensures end { IfOk result (λ n. n ≡ 0 → 0 < length buf.new → IsAtEnd (told_ahead R.remaining self.old)) }
        ensures sound { OnOk result (faults_after self.new ≡ faults_after self.old) }
        ensures kept { OnErr result (Keeps (told_ahead R.remaining self.old) (told_ahead R.remaining self.new)) }
        ensures fault { OnErr result (faults_after self.new ≡ next_fault (faults_after self.old)) }
    {
        if buf.len() >= self.held.make_room() {
            return self.source.pull(buf);
        }
        match self.held.fill(&mut self.source) {
            Ok(()) => Ok(self.take_held(buf)),
            Err(e) => Err(e),
        }
    }
}

impl<R: Read> Source for AheadSource<R> {
    ghost use Rattle.rmp_wire.specs.ReadAhead.{faults_after, told_ahead};

    ghost ahead = { told_ahead R.remaining };

    ghost faults = { faults_after };

    fn pull(&mut self, buf: &mut [u8]) -> Result<usize, io::Error> {
        if self.held.len() == 0 {
            return self.pull_more(buf);
        }
        Ok(self.take_held(buf))
    }

    #[inline(always)]
    fn front(&self) -> &[u8]
        ensures bytes { IsFront result.now (told_ahead R.remaining self.now) }
        ensures all { result.now ≡ held_of self.now }
    {
        self.held.as_slice()
    }

    #[inline(always)]
    fn skip(&mut self, len: usize) -> bool
        ensures bytes { IsTrue result → Skips len (told_ahead R.remaining self.old) (told_ahead R.remaining self.new) }
        ensures sound { IsTrue result → faults_after self.new ≡ faults_after self.old }
        ensures enough { IsTrue result → len ≤ length (held_of self.old) }
        ensures short { result ≡ false → length (held_of self.old) < len }
        ensures kept { result ≡ false → self.new ≡ self.old }
    {
        if len > self.held.len() {
            return false;
        }
        self.held.skip(len);
        true
    }
}
