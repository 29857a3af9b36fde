//! The reader that copies what it reads from a source.
ghost use Rattle.std.specs.Prelude.{◌≡◌, ◌≢◌, ◌+◌, ◌-◌, ◌<◌, ◌≤◌, ◌++◌, ℕ, List, [], None, Some, false, IfOk, IfErr, IsTrue, OnOk, OnErr, length};
ghost use Rattle.std.specs.Io.KnownBytes.{Consumes, Keeps};
ghost use Rattle.std.specs.Borrow.{sem, follows};
ghost use Rattle.rmp_wire.specs.contracts.slice.read_reader.ReadReader.{the_row};
ghost use Rattle.rmp_wire.specs.Copying.{Begun, Gains, copied_from, copying_with, scratch_of};
ghost use Rattle.rmp_wire.specs.Slices.{Blames};
ghost use Rattle.rmp_wire.specs.Spelling.{IsBytes};

use crate::error::IoFault;
use crate::slice::{ReadSlice, Reference, SourceFault};
use crate::source::Source;
use std::alloc::Global;
use std::io;
use std::io::ErrorKind;

/// The most bytes that are pulled at once.
const PIECE: usize = 128;

/// Reads from any source, and copies each slice into one vector, which the next slice replaces.
///
/// It reads no further than the slice, and reserves nothing for its length: the vector grows as bytes arrive.
#[derive(Drop)]
pub struct ReadReader<R> {
    rd: R,
    scratch: Vec<u8>,
}

impl<R> ReadReader<R> {
    /// Reads from `rd`. Memory for the copies comes from `alloc`, from the first slice on that isn't empty.
    pub fn new(alloc: Global, rd: R) -> ReadReader<R>
        ensures source { copied_from result ≡ rd }
        ensures scratch { scratch_of result ≡ [] }
    {
        ReadReader {
            rd,
            scratch: Vec::new(alloc),
        }
    }

    /// Returns a reference to the source.
    pub fn get_ref(&self) -> &R
        ensures { result.now ≡ copied_from self.now }
    {
        &self.rd
    }

    /// Returns a mutable reference to the source.
    pub fn get_mut(&mut self) -> &mut R
        ensures* writes_back { sem 𝓛 (follows (the_row R.row) R.row self.entry.ghost_name result.ghost_name (copying_with self.old)) }
        ensures value { result.now ≡ copied_from self.old }
    {
        &mut self.rd
    }

    /// Returns the source, from which no more was read than what was consumed.
    pub fn into_inner(self) -> R
        ensures { result ≡ copied_from self }
    {
        self.rd
    }
}

/// Reads from the underlying source; each call is passed on to it.
impl<R: Source> Source for ReadReader<R> {
    ghost use Rattle.rmp_wire.specs.Copying.{copied_from};

    ghost ahead = { λ r. R.ahead (copied_from r) };

    ghost faults = { λ r. R.faults (copied_from r) };

    ghost place = { λ r. R.place (copied_from r) };

    fn pull(&mut self, buf: &mut [u8]) -> Result<usize, io::Error> {
        self.rd.pull(buf)
    }

    #[inline(always)]
    fn front(&self) -> &[u8] {
        self.rd.front()
    }

    #[inline(always)]
    fn skip(&mut self, len: usize) -> bool {
        self.rd.skip(len)
    }

    #[inline(always)]
    fn pull_exact(&mut self, buf: &mut [u8]) -> Result<(), IoFault> {
        self.rd.pull_exact(buf)
    }

    #[inline(always)]
    fn take_1(&mut self) -> Result<[u8; 1], IoFault> {
        self.rd.take_1()
    }

    #[inline(always)]
    fn take_2(&mut self) -> Result<[u8; 2], IoFault> {
        self.rd.take_2()
    }

    #[inline(always)]
    fn take_4(&mut self) -> Result<[u8; 4], IoFault> {
        self.rd.take_4()
    }

    #[inline(always)]
    fn take_8(&mut self) -> Result<[u8; 8], IoFault> {
        self.rd.take_8()
    }
}

/// A copied slice is valid until the next read. Bytes consumed before a failure are lost.
impl<'de, R: Source> ReadSlice<'de> for ReadReader<R> {
    ghost use Rattle.rmp_wire.specs.Copying.{Begun, copied_from, scratch_of};

    ghost lends = { false };

    ghost leaves = { λ old new len r. Begun (R.ahead (copied_from old)) (R.ahead (copied_from new)) len (scratch_of new) };

    fn read_slice<'b>(&'b mut self, len: usize) -> Result<Reference<'de, 'b>, SourceFault> {
        match fill(&mut self.rd, &mut self.scratch, len) {
            Ok(()) => Ok(Reference::Copied(known(self.scratch.as_slice()))),
            Err(e) => Err(e),
        }
    }

    #[inline(always)]
    fn tells(&self) -> bool
        ensures told { IsTrue result → R.ahead (copied_from self.now) ≢ None }
        ensures never { result ≡ false }
    {
        false
    }
}

// Returns the slice; its contract adds that its items are bytes.
#[inline(always)]
fn known(bytes: &[u8]) -> &[u8]
    ensures same { result.now ≡ bytes.now }
    ensures bytes { IsBytes result.now }
{
    bytes
}

// Reads the next `len` bytes into the vector, in place of what it held.
fn fill<S: Source>(source: &mut S, scratch: &mut Vec<u8>, len: usize) -> Result<(), SourceFault>
    ensures count { OnOk result (length scratch.new.items ≡ len) }
    ensures taken { OnOk result (Consumes (S.ahead source.old) (S.ahead source.new) scratch.new.items) }
    ensures sound { OnOk result (S.faults source.new ≡ S.faults source.old) }
    ensures err { IfErr result (λ e. Blames e (S.faults source.old) (S.faults source.new) (S.ahead source.old) len) }
    ensures begun { Begun (S.ahead source.old) (S.ahead source.new) len scratch.new.items }
    ensures place { S.place source.new ≡ S.place source.old }
{
    scratch.clear();
    while scratch.len() < len {
        let most = len - scratch.len();
        if !copied_front(source, scratch, most)? {
            pull_piece(source, scratch, most)?;
        }
    }
    Ok(())
}

// Appends buffered bytes, at most `most`, to the vector, and returns whether there were any.
fn copied_front<S: Source>(
    source: &mut S,
    scratch: &mut Vec<u8>,
    most: usize,
) -> Result<bool, SourceFault>
    ensures ok { IfOk result (λ some. IsTrue some → Gains (S.ahead source.old) (S.ahead source.new) most scratch.old.items scratch.new.items) }
    ensures none { IfOk result (λ some. some ≡ false → (source.new ≡ source.old) × (scratch.new.items ≡ scratch.old.items)) }
    ensures memory { IfErr result (λ e. (e ≡ SourceFault.Memory) × (source.new ≡ source.old) × (scratch.new.items ≡ scratch.old.items)) }
    ensures sound { S.faults source.new ≡ S.faults source.old }
    ensures place { S.place source.new ≡ S.place source.old }
{
    let front = source.front();
    let n = front.len().min(most);
    if n == 0 {
        return Ok(false);
    }
    let held = scratch.len();
    if scratch.extend_from_slice(&front[..n]).is_err() {
        return Err(SourceFault::Memory);
    }
    if !source.skip(n) {
        scratch.truncate(held);
        return Ok(false);
    }
    Ok(true)
}

// Pulls bytes, at most `most`, and appends them to the vector.
fn pull_piece<S: Source>(
    source: &mut S,
    scratch: &mut Vec<u8>,
    most: usize,
) -> Result<(), SourceFault>
    requires wanted { 0 < most }
    ensures ok { OnOk result (Gains (S.ahead source.old) (S.ahead source.new) most scratch.old.items scratch.new.items) }
    ensures sound { OnOk result (S.faults source.new ≡ S.faults source.old) }
    ensures err { IfErr result (λ e. Blames e (S.faults source.old) (S.faults source.new) (S.ahead source.old) most) }
    ensures lost { OnErr result ((more : List ℕ) × (length more ≤ most) × Consumes (S.ahead source.old) (S.ahead source.new) more) }
    ensures kept { OnErr result (scratch.new.items ≡ scratch.old.items) }
    ensures place { S.place source.new ≡ S.place source.old }
{
    let mut piece = [0; PIECE];
    let room = most.min(PIECE);
    match source.pull(&mut piece[..room]) {
        Ok(0) => Err(SourceFault::Io(io::Error::from(ErrorKind::UnexpectedEof))),
        Ok(n) => match scratch.extend_from_slice(&piece[..n]) {
            Ok(()) => Ok(()),
            Err(_) => Err(SourceFault::Memory),
        },
        Err(e) => Err(SourceFault::Io(e)),
    }
}
