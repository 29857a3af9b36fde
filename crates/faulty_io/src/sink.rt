//! A sink that takes little and fails.
ghost use Rattle.std.specs.Prelude.{◌≡◌, ◌-◌, ◌<◌, ◌≤◌, ◌≢◌, [], true, Some, IfOk, IfErr, IsErr, length};
ghost use Rattle.std.specs.Io.KnownBytes.{WriteAppends};
ghost use Rattle.rmp_wire.specs.Sinks.{PutCounts};

use rmp_wire::{Sink, SinkFault};
use std::alloc::Global;
use std::io::{self, ErrorKind};

/// Takes one byte a put, and fails after `until_fault` bytes.
#[derive(Drop)]
pub struct Trickle {
    /// The bytes taken so far.
    pub bytes: Vec<u8>,
    /// How many more bytes are taken before the first fault.
    pub until_fault: usize,
    /// The number of faults so far.
    pub faults: u64,
}

impl Trickle {
    /// Makes an empty sink that fails after `until_fault` bytes.
    pub fn new(alloc: Global, until_fault: usize) -> Trickle
        ensures bytes { result.bytes.items ≡ [] }
        ensures until_fault { result.until_fault ≡ until_fault }
        ensures faults { result.faults ≡ 0 }
    {
        Trickle {
            bytes: Vec::new(alloc),
            until_fault,
            faults: 0,
        }
    }
}

impl Sink for Trickle {
    const TAKES_MEMORY: bool = true;

    ghost takes_memory = { true };

    ghost told = { λ s. Some s.bytes.items };

    ghost faults = { λ s. s.faults };

    /// # Errors
    /// `Io` of the kind `BrokenPipe` if `until_fault` is 0 and the piece isn't empty. `Memory` if the byte
    /// couldn't be allocated.
    fn put(&mut self, piece: &[u8]) -> Result<usize, SinkFault>
        ensures count { IfOk result (λ n. n ≤ length piece.now) }
        ensures bytes { WriteAppends (Some self.old.bytes.items) (Some self.new.bytes.items) result piece.now }
        ensures counts { PutCounts true self.old.faults self.new.faults piece.now result }
        ensures trickles { IfOk result (λ n. n ≤ 1) }
        ensures taken { IfOk result (λ n. 0 < length piece.now → n ≡ 1) }
        ensures fails { self.old.until_fault ≡ 0 → 0 < length piece.now → IsErr result }
        ensures memory { IfErr result (λ e. (self.old.until_fault ≢ 0) → e ≡ SinkFault.Memory) }
        ensures until { IfOk result (λ n. self.new.until_fault ≡ self.old.until_fault - n) }
    {
        let Some(first) = piece.first() else {
            return Ok(0);
        };
        if self.until_fault == 0 {
            self.faults = self.faults.wrapping_add(1);
            return Err(SinkFault::Io(io::Error::from(ErrorKind::BrokenPipe)));
        }
        match self.bytes.push(*first) {
            Ok(()) => {
                self.until_fault -= 1;
                Ok(1)
            }
            Err(_) => Err(SinkFault::Memory),
        }
    }
}
