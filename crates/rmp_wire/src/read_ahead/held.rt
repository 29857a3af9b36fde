//! The bytes that a source has read ahead.
ghost use Rattle.std.specs.Prelude.{◌≡◌, ◌-◌, ◌+◌, ◌<◌, ◌≤◌, ◌++◌, [], OnOk, OnErr, take, drop, length, min, slice_range, vec_len};
ghost use Rattle.std.specs.Io.KnownBytes.{Keeps, IsAtEnd, prepend_known};
ghost use Rattle.rmp_wire.specs.Sinks.{next_fault};

use crate::source::Source;
use std::alloc::Global;
use std::io;

/// The size of the buffer at first, and at most.
const LEAST_ROOM: usize = 1024;

const MOST_ROOM: usize = 8192;

// `bytes[start..end]` is buffered and not yet consumed. The length of `bytes` is the size of the buffer.
#[derive(Drop)]
pub(crate) struct Held {
    bytes: Vec<u8>,
    start: usize,
    end: usize,
    ghost ordered: { start ≤ end },
    ghost in_bounds: { end ≤ vec_len bytes },
}

impl Held {
    // An empty buffer, with no room.
    pub(crate) fn new(alloc: Global) -> Held
        ensures { slice_range result.bytes.items result.start result.end ≡ [] }
    {
        Held {
            bytes: Vec::new(alloc),
            start: 0,
            end: 0,
        }
    }

    #[inline(always)]
    pub(crate) fn as_slice(&self) -> &[u8]
        ensures value { result.now ≡ slice_range self.now.bytes.items self.now.start self.now.end }
        ensures len { length result.now ≡ self.now.end - self.now.start }
    {
        let (start, end) = (self.start, self.end);
        let all = self.bytes.as_slice();
        &all[start..end]
    }

    // The number of buffered bytes.
    #[inline(always)]
    pub(crate) fn len(&self) -> usize
        ensures value { result ≡ self.now.end - self.now.start }
        ensures count { result ≡ length (slice_range self.now.bytes.items self.now.start self.now.end) }
    {
        self.end - self.start
    }

    // Drops the first `len` buffered bytes.
    #[inline(always)]
    pub(crate) fn skip(&mut self, len: usize)
        requires { len ≤ self.old.end - self.old.start }
        ensures { slice_range self.new.bytes.items self.new.start self.new.end ≡ drop len (slice_range self.old.bytes.items self.old.start self.old.end) }
    {
        self.start += len;
    }

    // Drops all buffered bytes, and returns the room. A buffer that was filled doubles, up to the most, unless
    // out of memory.
    pub(crate) fn make_room(&mut self) -> usize
        ensures empty { slice_range self.new.bytes.items self.new.start self.new.end ≡ [] }
        ensures room { result ≡ vec_len self.new.bytes }
    {
        let room = self.bytes.len();
        let is_filled = self.end >= room;
        self.start = 0;
        self.end = 0;
        if is_filled && room < MOST_ROOM {
            let _ = self.bytes.resize((2 * room).max(LEAST_ROOM), 0);
        }
        self.bytes.len()
    }

    // Pulls once from a source, where nothing is buffered.
    pub(crate) fn fill<S: Source>(&mut self, source: &mut S) -> Result<(), io::Error>
        requires empty { slice_range self.old.bytes.items self.old.start self.old.end ≡ [] }
        requires room { 0 < vec_len self.old.bytes }
        ensures bytes { OnOk result (Keeps (S.ahead source.old)
            (prepend_known (slice_range self.new.bytes.items self.new.start self.new.end) (S.ahead source.new))) }
        ensures end { OnOk result (slice_range self.new.bytes.items self.new.start self.new.end ≡ [] → IsAtEnd (S.ahead source.old)) }
        ensures sound { OnOk result (S.faults source.new ≡ S.faults source.old) }
        ensures kept { OnErr result (Keeps (S.ahead source.old) (S.ahead source.new)) }
        ensures none { OnErr result (slice_range self.new.bytes.items self.new.start self.new.end ≡ []) }
        ensures fault { OnErr result (S.faults source.new ≡ next_fault (S.faults source.old)) }
    {
        self.start = 0;
        self.end = 0;
        match source.pull(self.bytes.as_mut_slice()) {
            Ok(n) => {
                self.end = n;
                Ok(())
            }
            Err(e) => Err(e),
        }
    }

    // Moves buffered bytes into the front of `buf`, as many as there are and fit.
    #[inline(always)]
    pub(crate) fn take_into(&mut self, buf: &mut [u8]) -> usize
        ensures size { length buf.new ≡ length buf.old }
        ensures count { result ≡ min (length (slice_range self.old.bytes.items self.old.start self.old.end)) (length buf.new) }
        ensures bytes { slice_range self.old.bytes.items self.old.start self.old.end ≡ take result buf.new
            ++ slice_range self.new.bytes.items self.new.start self.new.end }
    {
        let n = copy_front(self.as_slice(), buf);
        self.skip(n);
        n
    }
}

// Copies from the front of one slice to the front of the other, as many bytes as both have.
#[inline(always)]
fn copy_front(from: &[u8], to: &mut [u8]) -> usize
    ensures size { length to.new ≡ length to.old }
    ensures count { result ≡ min (length from.now) (length to.new) }
    ensures bytes { from.now ≡ take result to.new ++ drop result from.now }
{
    let n = from.len().min(to.len());
    to[..n].copy_from_slice(&from[..n]);
    n
}
