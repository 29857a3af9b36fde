//! Where bytes are read from.
ghost use Rattle.std.specs.Prelude.{◌≡◌, ℕ, List, [], ◌∷◌, Option, Some, IfOk, OnOk, OnErr, IsTrue, false, take, length, ◌<◌, ◌≤◌};
ghost use Rattle.std.specs.Io.KnownBytes.{Keeps, Consumes, IsAtEnd};
ghost use Rattle.rmp_wire.specs.Sources.{IsFront, Place, Skips, Takes, TakesInto};
ghost use Rattle.rmp_wire.specs.Sinks.{next_fault};

mod cursor;

use crate::error::IoFault;
use std::io;
use std::io::ErrorKind;

/// A source of bytes, which calls consume from the front.
///
/// A source may tell which bytes remain. Then contracts say which bytes a read consumed. A source that doesn't
/// tell, such as a socket, is read by the same code.
pub trait Source {
    // The remaining bytes, where the source tells them.
    ghost ahead: { Self → Option (List ℕ) };

    // How many faults there were; 2 ^ 64 - 1 is followed by 0.
    ghost faults: { Self → ℕ };

    // What reads don't change: the references that the source reads through, and the slice that it was made of.
    ghost place: { Self → List Place } = { λ _. [] };

    /// Reads bytes into the front of `buf`, and returns how many.
    ///
    /// It may read fewer bytes than `buf` has room for. `Ok(0)` for a `buf` that isn't empty means that the
    /// input has ended.
    ///
    /// # Errors
    /// The source's fault. Then nothing is consumed, and one more fault is counted.
    fn pull(&mut self, buf: &mut [u8]) -> Result<usize, io::Error>
        ensures bound { IfOk result (λ n. n ≤ length buf.new) }
        ensures bytes { IfOk result (λ n. Consumes (ahead self.old) (ahead self.new) (take n buf.new)) }
        ensures end { IfOk result (λ n. n ≡ 0 → 0 < length buf.new → IsAtEnd (ahead self.old)) }
        ensures sound { OnOk result (faults self.new ≡ faults self.old) }
        ensures kept { OnErr result (Keeps (ahead self.old) (ahead self.new)) }
        ensures fault { OnErr result (faults self.new ≡ next_fault (faults self.old)) }
        ensures place { place self.new ≡ place self.old };

    /// Returns buffered bytes without consuming them. They begin the remaining bytes, and are empty where
    /// nothing is buffered.
    fn front(&self) -> &[u8]
        ensures bytes { IsFront result.now (ahead self.now) }
    {
        &[]
    }

    /// Consumes `_len` buffered bytes. Returns `false` and consumes nothing where that isn't possible.
    fn skip(&mut self, _len: usize) -> bool
        ensures bytes { IsTrue result → Skips _len (ahead self.old) (ahead self.new) }
        ensures sound { IsTrue result → faults self.new ≡ faults self.old }
        ensures place { IsTrue result → place self.new ≡ place self.old }
        ensures kept { result ≡ false → self.new ≡ self.old }
    {
        false
    }

    /// Fills `buf`, and consumes as many bytes.
    ///
    /// # Errors
    /// `UnexpectedEof` where fewer bytes remain, and otherwise the source's first fault, after which nothing
    /// more is pulled. Bytes consumed before the error are lost.
    fn pull_exact(&mut self, buf: &mut [u8]) -> Result<(), IoFault>
        ensures bytes { TakesInto buf.new (ahead self.old) (ahead self.new) (faults self.old) (faults self.new) result }
        ensures place { place self.new ≡ place self.old }
    {
        let mut at = 0;
        while at < buf.len() {
            match self.pull(&mut buf[at..]) {
                Ok(0) => return Err(IoFault::from(ErrorKind::UnexpectedEof)),
                Ok(n) => at += n,
                Err(e) => return Err(IoFault::from(e)),
            }
        }
        Ok(())
    }

    /// Consumes one byte.
    ///
    /// # Errors
    /// Those of `pull_exact`.
    fn take_1(&mut self) -> Result<[u8; 1], IoFault>
        ensures bytes { Takes 1 (ahead self.old) (ahead self.new) (faults self.old) (faults self.new) result }
        ensures place { place self.new ≡ place self.old }
    {
        let mut bytes = [0; 1];
        self.pull_exact(&mut bytes)?;
        Ok(bytes)
    }

    /// Consumes two bytes.
    ///
    /// # Errors
    /// Those of `pull_exact`.
    fn take_2(&mut self) -> Result<[u8; 2], IoFault>
        ensures bytes { Takes 2 (ahead self.old) (ahead self.new) (faults self.old) (faults self.new) result }
        ensures place { place self.new ≡ place self.old }
    {
        let mut bytes = [0; 2];
        self.pull_exact(&mut bytes)?;
        Ok(bytes)
    }

    /// Consumes four bytes.
    ///
    /// # Errors
    /// Those of `pull_exact`.
    fn take_4(&mut self) -> Result<[u8; 4], IoFault>
        ensures bytes { Takes 4 (ahead self.old) (ahead self.new) (faults self.old) (faults self.new) result }
        ensures place { place self.new ≡ place self.old }
    {
        let mut bytes = [0; 4];
        self.pull_exact(&mut bytes)?;
        Ok(bytes)
    }

    /// Consumes eight bytes.
    ///
    /// # Errors
    /// Those of `pull_exact`.
    fn take_8(&mut self) -> Result<[u8; 8], IoFault>
        ensures bytes { Takes 8 (ahead self.old) (ahead self.new) (faults self.old) (faults self.new) result }
        ensures place { place self.new ≡ place self.old }
    {
        let mut bytes = [0; 8];
        self.pull_exact(&mut bytes)?;
        Ok(bytes)
    }
}

impl<S: Source> Source for &mut S {
    ghost use Rattle.rmp_wire.specs.Sources.Place.{through};

    ghost ahead = { λ s. S.ahead s.now };

    ghost faults = { λ s. S.faults s.now };

    ghost place = { λ s. through s.ghost_name ∷ S.place s.now };

    fn pull(&mut self, buf: &mut [u8]) -> Result<usize, io::Error> {
        Source::pull(&mut **self, buf)
    }

    #[inline(always)]
    fn front(&self) -> &[u8] {
        Source::front(&**self)
    }

    #[inline(always)]
    fn skip(&mut self, len: usize) -> bool {
        Source::skip(&mut **self, len)
    }

    #[inline(always)]
    fn pull_exact(&mut self, buf: &mut [u8]) -> Result<(), IoFault> {
        Source::pull_exact(&mut **self, buf)
    }

    #[inline(always)]
    fn take_1(&mut self) -> Result<[u8; 1], IoFault> {
        Source::take_1(&mut **self)
    }

    #[inline(always)]
    fn take_2(&mut self) -> Result<[u8; 2], IoFault> {
        Source::take_2(&mut **self)
    }

    #[inline(always)]
    fn take_4(&mut self) -> Result<[u8; 4], IoFault> {
        Source::take_4(&mut **self)
    }

    #[inline(always)]
    fn take_8(&mut self) -> Result<[u8; 8], IoFault> {
        Source::take_8(&mut **self)
    }
}

/// Reads the bytes of the slice, in order. A call that fails leaves the slice unchanged.
impl Source for &[u8] {
    ghost ahead = { λ s. Some s.now };

    ghost faults = { λ _. 0 };

    fn pull(&mut self, buf: &mut [u8]) -> Result<usize, io::Error> {
        let all: &[u8] = *self;
        let n = buf.len().min(all.len());
        let (front, rest) = all.split_at(n);
        buf[..n].copy_from_slice(front);
        *self = rest;
        Ok(n)
    }

    #[inline(always)]
    fn front(&self) -> &[u8]
        ensures bytes { IsFront result.now (Some self.now.now) }
        ensures all { result.now ≡ self.now.now }
    {
        *self
    }

    #[inline(always)]
    fn skip(&mut self, len: usize) -> bool
        ensures bytes { IsTrue result → Skips len (Some self.old.now) (Some self.new.now) }
        ensures short { result ≡ false → length self.old.now < len }
        ensures kept { result ≡ false → self.new ≡ self.old }
    {
        let all: &[u8] = *self;
        if len > all.len() {
            return false;
        }
        let (_, rest) = all.split_at(len);
        *self = rest;
        true
    }

    fn pull_exact(&mut self, buf: &mut [u8]) -> Result<(), IoFault>
        ensures bytes { TakesInto buf.new (Some self.old.now) (Some self.new.now) 0 0 result }
        ensures stays { OnErr result (self.new.now ≡ self.old.now) }
    {
        let all: &[u8] = *self;
        if all.len() < buf.len() {
            return Err(IoFault::from(ErrorKind::UnexpectedEof));
        }
        let (front, rest) = all.split_at(buf.len());
        buf.copy_from_slice(front);
        *self = rest;
        Ok(())
    }

    #[inline(always)]
    fn take_1(&mut self) -> Result<[u8; 1], IoFault>
        ensures bytes { Takes 1 (Some self.old.now) (Some self.new.now) 0 0 result }
        ensures stays { OnErr result (self.new.now ≡ self.old.now) }
    {
        match *self {
            [a, rest @ ..] => {
                let taken = [*a];
                *self = rest;
                Ok(taken)
            }
            _ => Err(IoFault::from(ErrorKind::UnexpectedEof)),
        }
    }

    #[inline(always)]
    fn take_2(&mut self) -> Result<[u8; 2], IoFault>
        ensures bytes { Takes 2 (Some self.old.now) (Some self.new.now) 0 0 result }
        ensures stays { OnErr result (self.new.now ≡ self.old.now) }
    {
        match *self {
            [a, b, rest @ ..] => {
                let taken = [*a, *b];
                *self = rest;
                Ok(taken)
            }
            _ => Err(IoFault::from(ErrorKind::UnexpectedEof)),
        }
    }

    #[inline(always)]
    fn take_4(&mut self) -> Result<[u8; 4], IoFault>
        ensures bytes { Takes 4 (Some self.old.now) (Some self.new.now) 0 0 result }
        ensures stays { OnErr result (self.new.now ≡ self.old.now) }
    {
        match *self {
            [a, b, c, d, rest @ ..] => {
                let taken = [*a, *b, *c, *d];
                *self = rest;
                Ok(taken)
            }
            _ => Err(IoFault::from(ErrorKind::UnexpectedEof)),
        }
    }

    #[inline(always)]
    fn take_8(&mut self) -> Result<[u8; 8], IoFault>
        ensures bytes { Takes 8 (Some self.old.now) (Some self.new.now) 0 0 result }
        ensures stays { OnErr result (self.new.now ≡ self.old.now) }
    {
        match *self {
            [a, b, c, d, e, f, g, h, rest @ ..] => {
                let taken = [*a, *b, *c, *d, *e, *f, *g, *h];
                *self = rest;
                Ok(taken)
            }
            _ => Err(IoFault::from(ErrorKind::UnexpectedEof)),
        }
    }
}
