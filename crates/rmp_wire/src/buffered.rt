//! A source over a buffered reader.
ghost use Rattle.std.specs.Prelude.{◌≡◌, ◌<◌, ◌≤◌, IfOk, IsTrue, false, length};
ghost use Rattle.std.specs.Io.Buffered.{reader_buffer, reader_remaining};
ghost use Rattle.rmp_wire.specs.Buffered.{buffer_of, buffer_faults};
ghost use Rattle.rmp_wire.specs.Sources.{IsFront, Skips};

use crate::source::Source;
use crate::stream::IoSource;
use std::io;
use std::io::{BufRead, BufReader, Read};

/// A buffered reader as a source. Reads come straight from the buffer, so they are as fast as from memory,
/// except for filling it.
///
/// It tells which bytes remain if the reader does. An interrupted read is retried, at most 16 times in a row.
/// Nothing is removed from the buffer that the source didn't consume.
#[derive(Drop)]
pub struct BufSource<R> {
    source: IoSource<BufReader<R>>,
}

impl<R> BufSource<R> {
    /// Reads from `reader`.
    pub fn new(reader: BufReader<R>) -> BufSource<R>
        ensures reader { buffer_of result ≡ reader }
        ensures faults { buffer_faults result ≡ 0 }
    {
        BufSource {
            source: IoSource::new(reader),
        }
    }

    /// Returns a reference to the reader.
    pub fn get_ref(&self) -> &BufReader<R>
        ensures { result.now ≡ buffer_of self.now }
    {
        self.source.get_ref()
    }

    /// Returns the reader, with what remains in its buffer.
    pub fn into_inner(self) -> BufReader<R>
        ensures { result ≡ buffer_of self }
    {
        self.source.into_inner()
    }
}

impl<R: Read> BufSource<R> {
    // What remains in the buffer.
    #[inline(always)]
    fn held(&self) -> &[u8]
        ensures bytes { IsFront result.now (reader_remaining R.remaining (buffer_of self.now)) }
        ensures all { result.now ≡ reader_buffer (buffer_of self.now) }
    {
        self.source.get_ref().buffer()
    }
}

impl<R: Read> Source for BufSource<R> {
    ghost use Rattle.std.specs.Io.Buffered.{reader_remaining};
    ghost use Rattle.rmp_wire.specs.Buffered.{buffer_of, buffer_faults};

    ghost ahead = { λ s. reader_remaining R.remaining (buffer_of s) };

    ghost faults = { buffer_faults };

    fn pull(&mut self, buf: &mut [u8]) -> Result<usize, io::Error> {
        self.source.pull(buf)
    }

    #[inline(always)]
    fn front(&self) -> &[u8]
        ensures bytes { IsFront result.now (reader_remaining R.remaining (buffer_of self.now)) }
        ensures all { result.now ≡ reader_buffer (buffer_of self.now) }
    {
        self.held()
    }

    #[inline(always)]
    fn skip(&mut self, len: usize) -> bool
        ensures bytes { IsTrue result → Skips len (reader_remaining R.remaining (buffer_of self.old)) (reader_remaining R.remaining (buffer_of self.new)) }
        ensures sound { IsTrue result → buffer_faults self.new ≡ buffer_faults self.old }
        ensures enough { IsTrue result → len ≤ length (reader_buffer (buffer_of self.old)) }
        ensures short { result ≡ false → length (reader_buffer (buffer_of self.old)) < len }
        ensures kept { result ≡ false → self.new ≡ self.old }
    {
        if len > self.held().len() {
            return false;
        }
        self.source.get_mut().consume(len);
        true
    }
}
