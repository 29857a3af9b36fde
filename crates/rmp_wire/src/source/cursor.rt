//! Cursors over bytes in memory.
ghost use Rattle.std.specs.Prelude.{◌≡◌, ◌+◌, ◌-◌, ◌<◌, ◌≤◌, ◌++◌, [], ◌∷◌, Some, IfErr, IfOk, IsTrue, OnErr, drop, take, false, length, min, true, ◌⊎◌};
ghost use Rattle.std.specs.Io.Cursor.{cursor_inner, cursor_position};
ghost use Rattle.rmp_wire.specs.Sources.{IsFront, Skips, TakesInto};
ghost use Rattle.rmp_wire.specs.Cursors.{cursor_place, slice_ahead, slice_place, vec_ahead, vec_place};

use crate::error::IoFault;
use crate::source::Source;
use std::io;
use std::io::{Cursor, ErrorKind};

// The bytes from an offset on; none where the offset is past the end.
#[inline(always)]
fn following(all: &[u8], place: u64) -> &[u8]
    ensures bytes { result.now ≡ drop place all.now }
    ensures count { length result.now ≡ length all.now - place }
{
    let start = (place as usize).min(all.len());
    &all[start..]
}

// Copies bytes from an offset on into the front of `buf`, and returns how many.
#[inline(always)]
fn copy_from(all: &[u8], place: u64, buf: &mut [u8]) -> usize
    ensures size { length buf.new ≡ length buf.old }
    ensures count { result ≡ min (length buf.new) (length all.now - place) }
    ensures bytes { drop place all.now ≡ take result buf.new ++ drop (place + result) all.now }
    ensures past { cursor_place all.now (place + result) ≡ cursor_place all.now place }
{
    let ahead = following(all, place);
    let n = buf.len().min(ahead.len());
    buf[..n].copy_from_slice(&ahead[..n]);
    n
}

// Whether at least `len` bytes follow an offset.
#[inline(always)]
fn holds(all: &[u8], place: u64, len: usize) -> bool
    ensures enough { result ≡ true → len ≤ length all.now - place }
    ensures few { IsTrue result ⊎ (length all.now - place < len) }
    ensures skips { result ≡ true → Skips len (Some (drop place all.now)) (Some (drop (place + len) all.now)) }
    ensures past { result ≡ true → cursor_place all.now (place + len) ≡ cursor_place all.now place }
{
    len <= following(all, place).len()
}

/// Reads the bytes from the cursor's position on, in order. A call that fails leaves the cursor unchanged.
impl Source for Cursor<&[u8]> {
    ghost ahead = { λ c. Some (slice_ahead c) };

    ghost faults = { λ _. 0 };

    ghost place = { slice_place };

    fn pull(&mut self, buf: &mut [u8]) -> Result<usize, io::Error> {
        let at = self.position();
        let n = copy_from(self.get_ref(), at, buf);
        self.set_position(at + n as u64);
        Ok(n)
    }

    #[inline(always)]
    fn front(&self) -> &[u8]
        ensures bytes { IsFront result.now (Some (slice_ahead self.now)) }
        ensures all { result.now ≡ slice_ahead self.now }
    {
        following(self.get_ref(), self.position())
    }

    #[inline(always)]
    fn skip(&mut self, len: usize) -> bool
        ensures bytes { IsTrue result → Skips len (Some (slice_ahead self.old)) (Some (slice_ahead self.new)) }
        ensures short { result ≡ false → length (cursor_inner self.old).now - cursor_position self.old < len }
        ensures kept { result ≡ false → self.new ≡ self.old }
        ensures place { IsTrue result → slice_place self.new ≡ slice_place self.old }
    {
        let at = self.position();
        let fits = holds(self.get_ref(), at, len);
        if fits {
            self.set_position(at + len as u64);
        }
        fits
    }

    #[inline(always)]
    fn pull_exact(&mut self, buf: &mut [u8]) -> Result<(), IoFault>
        ensures bytes { TakesInto buf.new (Some (slice_ahead self.old)) (Some (slice_ahead self.new)) 0 0 result }
        ensures place { slice_place self.new ≡ slice_place self.old }
        ensures kept { IfErr result (λ _. self.new ≡ self.old) }
    {
        let at = self.position();
        if !holds(self.get_ref(), at, buf.len()) {
            return Err(IoFault::from(ErrorKind::UnexpectedEof));
        }
        let n = copy_from(self.get_ref(), at, buf);
        self.set_position(at + n as u64);
        Ok(())
    }
}

/// Reads the bytes from the cursor's position on, in order. A call that fails leaves the cursor unchanged.
impl Source for Cursor<Vec<u8>> {
    ghost ahead = { λ c. Some (vec_ahead c) };

    ghost faults = { λ _. 0 };

    ghost place = { vec_place };

    fn pull(&mut self, buf: &mut [u8]) -> Result<usize, io::Error> {
        let at = self.position();
        let n = copy_from(self.get_ref().as_slice(), at, buf);
        self.set_position(at + n as u64);
        Ok(n)
    }

    #[inline(always)]
    fn front(&self) -> &[u8]
        ensures bytes { IsFront result.now (Some (vec_ahead self.now)) }
        ensures all { result.now ≡ vec_ahead self.now }
    {
        following(self.get_ref().as_slice(), self.position())
    }

    #[inline(always)]
    fn skip(&mut self, len: usize) -> bool
        ensures bytes { IsTrue result → Skips len (Some (vec_ahead self.old)) (Some (vec_ahead self.new)) }
        ensures short { result ≡ false → length (cursor_inner self.old).items - cursor_position self.old < len }
        ensures kept { result ≡ false → self.new ≡ self.old }
        ensures place { IsTrue result → vec_place self.new ≡ vec_place self.old }
    {
        let at = self.position();
        let fits = holds(self.get_ref().as_slice(), at, len);
        if fits {
            self.set_position(at + len as u64);
        }
        fits
    }

    #[inline(always)]
    fn pull_exact(&mut self, buf: &mut [u8]) -> Result<(), IoFault>
        ensures bytes { TakesInto buf.new (Some (vec_ahead self.old)) (Some (vec_ahead self.new)) 0 0 result }
        ensures place { vec_place self.new ≡ vec_place self.old }
        ensures kept { IfErr result (λ _. self.new ≡ self.old) }
    {
        let at = self.position();
        if !holds(self.get_ref().as_slice(), at, buf.len()) {
            return Err(IoFault::from(ErrorKind::UnexpectedEof));
        }
        let n = copy_from(self.get_ref().as_slice(), at, buf);
        self.set_position(at + n as u64);
        Ok(())
    }
}
