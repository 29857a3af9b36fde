//! The bytes of a source, of which one message is held at a time.
ghost use Rattle.std.specs.Prelude.{◌≡◌, ◌<◌, ◌++◌, ℕ, List, length, false, true, IfOk, IfErr, OnOk};
ghost use Rattle.std.specs.Io.KnownBytes.{Consumes, IsAtEnd};
ghost use Rattle.canon_lines.specs.Input.{StopsReading};
ghost use Rattle.canon_lines.specs.Held.{IsFront, Pulls};

use crate::lines::RunFault;
use rmp_decode::Error;
use rmp_serde::wire::Source;
use rmp_serde::{Scan, Scanner};

// How many bytes are pulled at a time, at most.
const CHUNK: usize = 4096;

/// What is at the front of the bytes that are held.
#[derive(Clone, Copy)]
pub enum Front {
    /// A message of so many bytes.
    Message(usize),
    /// No message, whatever follows these bytes.
    Nothing,
    /// No whole message, and the input ends after these bytes.
    Rest,
    /// The input ends, and nothing is held.
    End,
}

// Pulls bytes after those that are held, and says whether there were any.
fn pull_more<R: Source>(bytes: &mut Vec<u8>, source: &mut R) -> Result<bool, RunFault>
    ensures pulled { OnOk result (Pulls R.Source bytes.old.items bytes.new.items source.old source.new) }
    ensures more { IfOk result (λ more. more ≡ true → length bytes.old.items < length bytes.new.items) }
    ensures end { IfOk result (λ more. more ≡ false → IsAtEnd (R.ahead source.old) × (bytes.new.items ≡ bytes.old.items)) }
    ensures place { R.place source.new ≡ R.place source.old }
{
    let mut chunk = [0; CHUNK];
    match source.pull(&mut chunk) {
        Ok(0) => Ok(false),
        Ok(n) => {
            bytes.extend_from_slice(&chunk[..n])?;
            Ok(true)
        }
        Err(e) => Err(RunFault::Input(e)),
    }
}

/// Pulls bytes until a whole message is held, or until no more bytes can make one.
///
/// It looks at each byte of a message once.
pub fn find<R: Source>(bytes: &mut Vec<u8>, source: &mut R) -> Result<Front, RunFault>
    ensures pulled { OnOk result (Pulls R.Source bytes.old.items bytes.new.items source.old source.new) }
    ensures front { IfOk result (IsFront (R.ahead source.old) bytes.old.items bytes.new.items) }
    ensures place { R.place source.new ≡ R.place source.old }
{
    let mut scanner = Scanner::new();
    let mut scanned = 0;
    'pieces: loop {
        match scanner.scan(&bytes[scanned..]) {
            Ok(Scan::Whole { used }) => return Ok(Front::Message(scanned + used)),
            Ok(Scan::More) => {}
            Err(Error::TypeMismatch(_)) => return Ok(Front::Nothing),
            // A message of 2^100 bytes has no room in memory.
            Err(_) => return Err(RunFault::Memory),
        }
        scanned = bytes.len();
        if !pull_more(bytes, source)? {
            return Ok(if bytes.is_empty() {
                Front::End
            } else {
                Front::Rest
            });
        }
    }
}
