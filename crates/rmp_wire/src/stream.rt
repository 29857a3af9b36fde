//! Readers and writers of std as sources and sinks.
ghost use Rattle.std.specs.Prelude.{◌≡◌, ◌≤◌, false, IfOk, length};
ghost use Rattle.std.specs.Borrow.{sem, follows};
ghost use Rattle.std.specs.Io.KnownBytes.{ReadConsumes, WriteAppends};
ghost use Rattle.rmp_wire.specs.contracts.stream.IoSource.{the_row as source_row};
ghost use Rattle.rmp_wire.specs.contracts.stream.IoSink.{the_row as sink_row};
ghost use Rattle.rmp_wire.specs.Streams.{reader_of, read_faults, with_reader, writer_of, write_faults, with_writer};

use crate::sink::{Sink, SinkFault};
use crate::source::Source;
use std::io;
use std::io::{ErrorKind, Read, Write};

/// How many times in a row an interrupted call is retried.
const MOST_RETRIES: u32 = 16;

/// A reader as a source. It tells which bytes remain if the reader does.
///
/// An interrupted read is retried, at most 16 times in a row.
#[derive(Debug, Drop)]
pub struct IoSource<R> {
    reader: R,
    faults: u64,
}

impl<R> IoSource<R> {
    /// Reads from `reader`.
    pub fn new(reader: R) -> IoSource<R>
        ensures reader { reader_of result ≡ reader }
        ensures faults { read_faults result ≡ 0 }
    {
        IoSource { reader, faults: 0 }
    }

    /// Returns a reference to the reader.
    pub fn get_ref(&self) -> &R
        ensures { result.now ≡ reader_of self.now }
    {
        &self.reader
    }

    /// Returns a mutable reference to the reader.
    pub fn get_mut(&mut self) -> &mut R
        ensures* writes_back { sem 𝓛 (follows (source_row R.row) R.row self.entry.ghost_name result.ghost_name (with_reader self.old)) }
        ensures value { result.now ≡ reader_of self.old }
    {
        &mut self.reader
    }

    /// Returns the reader, from which no more was read than what was consumed.
    pub fn into_inner(self) -> R
        ensures { result ≡ reader_of self }
    {
        self.reader
    }
}

impl<R: Read> IoSource<R> {
    // One read, retried where it was interrupted.
    fn read(&mut self, buf: &mut [u8]) -> Result<usize, io::Error>
        ensures bound { IfOk result (λ n. n ≤ length buf.new) }
        ensures bytes { ReadConsumes (R.remaining (reader_of self.old)) (R.remaining (reader_of self.new)) result buf.new }
        ensures faults { read_faults self.new ≡ read_faults self.old }
    {
        for _ in 0..MOST_RETRIES {
            match self.reader.read(buf) {
                Err(e) if e.kind() == ErrorKind::Interrupted => drop(e),
                answer => return answer,
            }
        }
        self.reader.read(buf)
    }
}

impl<R: Read> Source for IoSource<R> {
    ghost use Rattle.rmp_wire.specs.Streams.{reader_of, read_faults};

    ghost ahead = { λ s. R.remaining (reader_of s) };

    ghost faults = { read_faults };

    fn pull(&mut self, buf: &mut [u8]) -> Result<usize, io::Error> {
        let answer = self.read(buf);
        if answer.is_err() {
            self.faults = self.faults.wrapping_add(1);
        }
        answer
    }
}

/// A writer as a sink. It tells which bytes were written if the writer does.
///
/// An interrupted write is retried, at most 16 times in a row. Nothing is flushed.
#[derive(Debug, Drop)]
pub struct IoSink<W> {
    writer: W,
    faults: u64,
}

impl<W> IoSink<W> {
    /// Writes to `writer`.
    pub fn new(writer: W) -> IoSink<W>
        ensures writer { writer_of result ≡ writer }
        ensures faults { write_faults result ≡ 0 }
    {
        IoSink { writer, faults: 0 }
    }

    /// Returns a reference to the writer.
    pub fn get_ref(&self) -> &W
        ensures { result.now ≡ writer_of self.now }
    {
        &self.writer
    }

    /// Returns a mutable reference to the writer.
    pub fn get_mut(&mut self) -> &mut W
        ensures* writes_back { sem 𝓛 (follows (sink_row W.row) W.row self.entry.ghost_name result.ghost_name (with_writer self.old)) }
        ensures value { result.now ≡ writer_of self.old }
    {
        &mut self.writer
    }

    /// Returns the writer.
    pub fn into_inner(self) -> W
        ensures { result ≡ writer_of self }
    {
        self.writer
    }
}

impl<W: Write> IoSink<W> {
    // One write, retried where it was interrupted.
    fn write(&mut self, piece: &[u8]) -> Result<usize, io::Error>
        ensures count { IfOk result (λ n. n ≤ length piece.now) }
        ensures bytes { WriteAppends (W.contents (writer_of self.old)) (W.contents (writer_of self.new)) result piece.now }
        ensures faults { write_faults self.new ≡ write_faults self.old }
    {
        for _ in 0..MOST_RETRIES {
            match self.writer.write(piece) {
                Err(e) if e.kind() == ErrorKind::Interrupted => drop(e),
                answer => return answer,
            }
        }
        self.writer.write(piece)
    }
}

impl<W: Write> Sink for IoSink<W> {
    ghost use Rattle.rmp_wire.specs.Streams.{writer_of, write_faults};

    const TAKES_MEMORY: bool = false;

    ghost takes_memory = { false };

    ghost told = { λ s. W.contents (writer_of s) };

    ghost faults = { write_faults };

    fn put(&mut self, piece: &[u8]) -> Result<usize, SinkFault> {
        match self.write(piece) {
            Ok(n) => {
                if n == 0 && !piece.is_empty() {
                    self.faults = self.faults.wrapping_add(1);
                }
                Ok(n)
            }
            Err(e) => {
                self.faults = self.faults.wrapping_add(1);
                Err(SinkFault::Io(e))
            }
        }
    }
}
