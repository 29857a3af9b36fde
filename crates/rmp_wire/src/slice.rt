//! Sources that return whole slices of their bytes, borrowed from the input where possible.
ghost use Rattle.std.specs.Prelude.{◌≡◌, ◌≢◌, ℕ, Bool, true, false, Option, None, Some, IfOk, IfErr, IfSome, IsTrue, OnErr, MatchOption, length, ◌<◌, ◌++◌};
ghost use Rattle.std.specs.Borrow.{sem};
ghost use Rattle.std.specs.Io.BufRead.{Rests};
ghost use Rattle.rmp_wire.specs.Slices.{reference_bytes, is_lent, SliceRead};
ghost use Rattle.rmp_wire.specs.Sources.{IsFront, Skips, Takes, TakesInto};
ghost use Rattle.rmp_wire.specs.Spelling.{IsBytes};

mod read_reader;

use crate::error::IoFault;
use crate::source::Source;
pub use read_reader::ReadReader;
use std::io;
use std::io::ErrorKind;

/// Bytes of the input: either borrowed from it, or copied into a buffer that the next read replaces.
#[derive(Clone, Copy, Debug, PartialEq)]
pub enum Reference<'b, 'c> {
    /// Bytes of the input itself, which live as long as it does.
    Borrowed(&'b [u8]),
    /// A copy, which is replaced by the next read.
    Copied(&'c [u8]),
}

impl<'b, 'c> Reference<'b, 'c> {
    /// Returns the bytes, borrowed or copied.
    pub fn as_bytes(&self) -> &[u8]
        ensures { result.now ≡ reference_bytes self.now }
    {
        match self {
            Reference::Borrowed(bytes) => bytes,
            Reference::Copied(bytes) => bytes,
        }
    }
}

/// Why a slice of the input couldn't be read.
#[derive(Debug, Drop)]
pub enum SourceFault {
    /// The source failed, or, with `UnexpectedEof`, too few bytes remain.
    Io(io::Error),
    /// Out of memory for a copy.
    Memory,
}

/// A source that returns a whole slice of its bytes at once.
pub trait ReadSlice<'de>: Source {
    ghost use Rattle.std.specs.Prelude.{Result};
    ghost use Rattle.rmp_wire.specs.declared.slice.Reference.{Reference};
    ghost use Rattle.rmp_wire.specs.declared.slice.SourceFault.{SourceFault};
    ghost use Rattle.rmp_wire.specs.declared.slice.SourceFault.TheVariants.{Memory};

    // Whether the slices are borrowed. Then no memory is allocated.
    ghost lends: { Bool };

    // What else holds after a call with this length, besides what holds of every source.
    ghost leaves: { Self → Self → ℕ → Result Reference SourceFault → Type 0 };

    /// Consumes `len` bytes, and returns them.
    ///
    /// # Errors
    /// `Io` with `UnexpectedEof` where fewer bytes remain, and otherwise with the source's fault. `Memory`
    /// where a copy couldn't be allocated.
    fn read_slice<'a>(&'a mut self, len: usize) -> Result<Reference<'de, 'a>, SourceFault>
        ensures* after { sem 𝓛 (Rests Self.row self.entry (λ new. SliceRead (Self.ahead self.old) (Self.ahead new) (Self.faults self.old) (Self.faults new)
            len result
            × leaves self.old new len result × (Self.place new ≡ Self.place self.old))) }
        ensures count { IfOk result (λ r. length (reference_bytes r) ≡ len) }
        ensures bytes { IfOk result (λ r. IsBytes (reference_bytes r)) }
        ensures kind { IfOk result (λ r. is_lent r ≡ lends) }
        ensures memory { lends ≡ true → IfErr result (λ e. e ≢ Memory) };

    /// Returns whether the source tells its remaining bytes, as one over memory does. One that may not tell
    /// them, or doesn't know, returns `false`.
    fn tells(&self) -> bool
        ensures told { IsTrue result → Self.ahead self.now ≢ None };
}

/// A source over a slice, which returns slices borrowed from it.
#[derive(Clone, Copy, Debug)]
pub struct ReadRefReader<'a> {
    rest: &'a [u8],
    whole: &'a [u8],
}

impl<'a> ReadRefReader<'a> {
    ghost use Rattle.rmp_wire.specs.RefReader.{rest_of, whole_of};

    /// Starts at the beginning of `whole`.
    pub fn new(whole: &'a [u8]) -> ReadRefReader<'a>
        ensures rest { rest_of result ≡ whole.now }
        ensures whole { whole_of result ≡ whole.now }
    {
        ReadRefReader { rest: whole, whole }
    }

    /// Returns the slice that the reader was made of.
    pub fn whole(&self) -> &'a [u8]
        ensures { result.now ≡ whole_of self.now }
    {
        self.whole
    }

    /// Returns the remaining bytes.
    pub fn remaining_slice(&self) -> &'a [u8]
        ensures { result.now ≡ rest_of self.now }
    {
        self.rest
    }
}

/// Reads the bytes of the slice, in order. A call that fails leaves them unchanged, and `whole` never changes.
impl<'a> Source for ReadRefReader<'a> {
    ghost use Rattle.rmp_wire.specs.RefReader.{rest_of, whole_of, place_of};

    ghost ahead = { λ r. Some (rest_of r) };

    ghost faults = { λ _. 0 };

    ghost place = { place_of };

    fn pull(&mut self, buf: &mut [u8]) -> Result<usize, io::Error> {
        Source::pull(&mut self.rest, buf)
    }

    #[inline(always)]
    fn front(&self) -> &[u8]
        ensures bytes { IsFront result.now (Some (rest_of self.now)) }
        ensures all { result.now ≡ rest_of self.now }
    {
        self.rest.front()
    }

    #[inline(always)]
    fn skip(&mut self, len: usize) -> bool
        ensures bytes { IsTrue result → Skips len (Some (rest_of self.old)) (Some (rest_of self.new)) }
        ensures short { result ≡ false → length (rest_of self.old) < len }
        ensures kept { result ≡ false → self.new ≡ self.old }
        ensures place { IsTrue result → place_of self.new ≡ place_of self.old }
    {
        self.rest.skip(len)
    }

    #[inline(always)]
    fn pull_exact(&mut self, buf: &mut [u8]) -> Result<(), IoFault>
        ensures bytes { TakesInto buf.new (Some (rest_of self.old)) (Some (rest_of self.new)) 0 0 result }
        ensures stays { OnErr result (rest_of self.new ≡ rest_of self.old) }
        ensures whole { whole_of self.new ≡ whole_of self.old }
    {
        self.rest.pull_exact(buf)
    }

    #[inline(always)]
    fn take_1(&mut self) -> Result<[u8; 1], IoFault>
        ensures bytes { Takes 1 (Some (rest_of self.old)) (Some (rest_of self.new)) 0 0 result }
        ensures stays { OnErr result (rest_of self.new ≡ rest_of self.old) }
        ensures whole { whole_of self.new ≡ whole_of self.old }
    {
        self.rest.take_1()
    }

    #[inline(always)]
    fn take_2(&mut self) -> Result<[u8; 2], IoFault>
        ensures bytes { Takes 2 (Some (rest_of self.old)) (Some (rest_of self.new)) 0 0 result }
        ensures stays { OnErr result (rest_of self.new ≡ rest_of self.old) }
        ensures whole { whole_of self.new ≡ whole_of self.old }
    {
        self.rest.take_2()
    }

    #[inline(always)]
    fn take_4(&mut self) -> Result<[u8; 4], IoFault>
        ensures bytes { Takes 4 (Some (rest_of self.old)) (Some (rest_of self.new)) 0 0 result }
        ensures stays { OnErr result (rest_of self.new ≡ rest_of self.old) }
        ensures whole { whole_of self.new ≡ whole_of self.old }
    {
        self.rest.take_4()
    }

    #[inline(always)]
    fn take_8(&mut self) -> Result<[u8; 8], IoFault>
        ensures bytes { Takes 8 (Some (rest_of self.old)) (Some (rest_of self.new)) 0 0 result }
        ensures stays { OnErr result (rest_of self.new ≡ rest_of self.old) }
        ensures whole { whole_of self.new ≡ whole_of self.old }
    {
        self.rest.take_8()
    }
}

impl<'a> ReadSlice<'a> for ReadRefReader<'a> {
    ghost use Rattle.rmp_wire.specs.RefReader.{rest_of};

    ghost lends = { true };

    ghost leaves = { λ old new len r. OnErr r (rest_of new ≡ rest_of old) };

    #[inline(always)]
    fn read_slice<'b>(&'b mut self, len: usize) -> Result<Reference<'a, 'b>, SourceFault> {
        match split_front(self.rest, len) {
            Some((front, rest)) => {
                self.rest = rest;
                Ok(Reference::Borrowed(front))
            }
            None => Err(SourceFault::Io(io::Error::from(ErrorKind::UnexpectedEof))),
        }
    }

    #[inline(always)]
    fn tells(&self) -> bool
        ensures told { IsTrue result → Some (rest_of self.now) ≢ None }
        ensures always { result ≡ true }
    {
        true
    }
}

// The first `len` bytes and the rest, if there are as many.
#[inline(always)]
fn split_front(all: &[u8], len: usize) -> Option<(&[u8], &[u8])>
    ensures parts { MatchOption result (length all.now < len) (λ p. (length p.0.now ≡ len) × (all.now ≡ p.0.now ++ p.1.now)) }
    ensures bytes { IfSome result (λ p. IsBytes p.0.now) }
{
    if len > all.len() {
        return None;
    }
    Some(all.split_at(len))
}
