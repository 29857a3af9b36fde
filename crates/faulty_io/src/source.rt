//! A source that drips and fails.
ghost use Rattle.std.specs.Prelude.{◌≡◌, ◌↔◌, ◌-◌, ◌<◌, ◌≤◌, Some, IfOk, IsErr, OnErr, OnOk, length, take};
ghost use Rattle.std.specs.Io.KnownBytes.{Consumes, IsAtEnd, Keeps};
ghost use Rattle.rmp_wire.specs.Sinks.{next_fault};

use rmp_wire::Source;
use std::io::{self, ErrorKind};

/// Returns one byte a pull, and fails after `until_fault` pulls.
#[derive(Drop)]
pub struct Drip<'a> {
    /// The remaining bytes.
    pub rest: &'a [u8],
    /// How many more pulls succeed before the first fault.
    pub until_fault: usize,
    /// The number of faults so far.
    pub faults: u64,
}

impl<'a> Drip<'a> {
    /// Makes a source of these bytes that fails after `until_fault` pulls. A pull at the end of the bytes
    /// counts too.
    pub fn new(rest: &'a [u8], until_fault: usize) -> Drip<'a>
        ensures rest { result.rest.now ≡ rest.now }
        ensures until_fault { result.until_fault ≡ until_fault }
        ensures faults { result.faults ≡ 0 }
    {
        Drip {
            rest,
            until_fault,
            faults: 0,
        }
    }
}

impl<'a> Source for Drip<'a> {
    ghost ahead = { λ s. Some s.rest.now };

    ghost faults = { λ s. s.faults };

    /// # Errors
    /// `TimedOut` if `until_fault` is 0. Then nothing is consumed.
    fn pull(&mut self, buf: &mut [u8]) -> Result<usize, io::Error>
        ensures bound { IfOk result (λ n. n ≤ length buf.new) }
        ensures bytes { IfOk result (λ n. Consumes (Some self.old.rest.now) (Some self.new.rest.now) (take n buf.new)) }
        ensures end { IfOk result (λ n. n ≡ 0 → 0 < length buf.new → IsAtEnd (Some self.old.rest.now)) }
        ensures sound { OnOk result (self.new.faults ≡ self.old.faults) }
        ensures kept { OnErr result (Keeps (Some self.old.rest.now) (Some self.new.rest.now)) }
        ensures fault { OnErr result (self.new.faults ≡ next_fault self.old.faults) }
        ensures drips { IfOk result (λ n. n ≤ 1) }
        ensures fails { IsErr result ↔ (self.old.until_fault ≡ 0) }
        ensures counts { self.new.until_fault ≡ self.old.until_fault - 1 }
    {
        if self.until_fault == 0 {
            self.faults = self.faults.wrapping_add(1);
            return Err(io::Error::from(ErrorKind::TimedOut));
        }
        self.until_fault -= 1;
        if buf.is_empty() {
            return Ok(0);
        }
        match self.rest {
            [first, rest @ ..] => {
                buf[0] = *first;
                self.rest = rest;
                Ok(1)
            }
            _ => Ok(0),
        }
    }
}
