//! Requests one after another on a stream, with no lengths between them.
ghost use Rattle.std.specs.Prelude.{◌≡◌, ◌≢◌, ◌≤◌, ◌<◌, ◌+◌, ◌++◌, List, ℕ, true, false, length, Ok, Err, None, IfOk, IfErr, IfSome, OnErr, [], ◌↔◌};
ghost use Rattle.rmp_decode.specs.declared.error.Error.TheVariants.{OutOfMemory};
ghost use Rattle.rmp_encode.specs.declared.error.Error.TheVariants as encode_error;
ghost use Rattle.rmp_scan.specs.Scans.{IsBeginning};
ghost use Rattle.rmp_wire.specs.Msg.{depth};
ghost use Rattle.example_frames.specs.Frames.{message_of};
ghost use Rattle.example_frames.specs.Streams.{IsSent, IsUncut, TakenFrom, StopsStream, refusal_for};
ghost use Rattle.example_frames.specs.declared.stream.StreamRefusal.TheVariants as refusal;

use crate::frames::{first_request, read_as, written_as};
use crate::request::Request;
use rmp_serde::decode::{Deserialize, Error};
use rmp_serde::{Scan, Scanner, encode, to_vec};
use rmp_wire::ReadRefReader;
use std::alloc::Global;

/// Why a peer's bytes are refused. Nothing says then where its next request begins.
#[derive(Debug, Drop, thiserror::Error)]
pub enum StreamRefusal {
    /// The byte c1 is where a message should begin.
    #[error("no request begins so")]
    Reserved,
    /// The request asks for more bytes than the limit. It is refused as soon as its heads say so.
    #[error("the request is too long")]
    TooLong,
    /// A message came that isn't a request, or memory ran out.
    #[error("not a request: {0}")]
    NotRequest(Error),
    /// The peer's bytes were refused before.
    #[error("refused before")]
    Closed,
}

/// Returns a request's bytes, with no length before them.
///
/// # Errors
/// Those of `to_vec`.
pub fn write_bare(alloc: Global, request: &Request) -> Result<Vec<u8>, encode::Error>
    ensures written { IfOk result (λ bytes. IsSent request.now bytes.items) }
    // A request that can be sent is refused only out of memory.
    ensures refused { IfErr result (λ e. e ≢ encode_error.OutOfMemory → (bytes : List ℕ) → IsSent request.now bytes → ⊥) }
{
    written_as();
    to_vec(alloc, request)
}

/// The requests of a peer, whose bytes arrive in pieces of any size.
///
/// It holds what has come of one request, at most as many bytes as the limit, whatever the peer claims.
#[derive(Drop)]
pub struct Incoming {
    scanner: Scanner,
    bytes: Vec<u8>,
    closed: bool,
}

impl Incoming {
    ghost use Rattle.example_frames.specs.Streams.{held, limit_in, IsOpen, is_closed};

    /// Waits for the first request of a peer. No request may have more bytes than the limit.
    pub fn new(alloc: Global, limit: usize) -> Incoming
        ensures open { IsOpen result }
        ensures held { held result ≡ [] }
        ensures limit { limit_in result ≡ limit }
    {
        let mut scanner = Scanner::new();
        scanner.limit_bytes(limit);
        Incoming {
            scanner,
            bytes: Vec::new(alloc),
            closed: false,
        }
    }

    /// Takes the next piece. It returns the request that ends in it, with what follows that request in the piece, or `None` where the
    /// request goes on after the piece.
    ///
    /// # Errors
    /// Each `StreamRefusal`, for the reason that it names. After an error each further call returns `Closed`.
    pub fn next<'a>(
        &mut self,
        alloc: Global,
        piece: &'a [u8],
    ) -> Result<Option<(Request, &'a [u8])>, StreamRefusal>
        // By the bytes that it holds and the piece, together: they begin with a request within the limit, and what follows it is left.
        ensures taken { IsOpen self.old → IfOk result (λ o. IfSome o (λ r. TakenFrom (⟦<Request as Deserialize<'a, ReadRefReader<'a>>>⟧.reads false true)
            (limit_in self.old) r.0 r.1.now (held self.old ++ piece.now))) }
        // What a peer wrote comes back as its request, and what it wrote then is left.
        ensures back { IsOpen self.old → IfOk result (λ o. IfSome o (λ r. (asked : Request) (bytes rest : List ℕ) → IsSent asked bytes
            → held self.old ++ piece.now ≡ bytes ++ rest → (r.0 ≡ asked) × (r.1.now ≡ rest))) }
        // Then it waits for the next one.
        ensures between { IsOpen self.old → IfOk result (λ o. IfSome o (λ r. IsOpen self.new × (held self.new ≡ []))) }
        // `None` comes where they are the beginning of a message, and it holds them.
        ensures more { IsOpen self.old → result ≡ Ok None → IsOpen self.new × (held self.new ≡ held self.old ++ piece.now)
            × IsBeginning (held self.new) × (length (held self.new) ≤ limit_in self.old) }
        // Each refusal has its reason,
        ensures refused { IsOpen self.old → IfErr result (StopsStream (⟦<Request as Deserialize<'a, ReadRefReader<'a>>>⟧.reads false true)
            ⟦<Request as Deserialize<'a, ReadRefReader<'a>>>⟧.refuses (limit_in self.old) (held self.old ++ piece.now)) }
        // and what a peer wrote within the limits is refused only out of memory, however much of it has come.
        ensures whole { IsOpen self.old → IfErr result (λ e. e ≢ refusal.NotRequest OutOfMemory → (asked : Request) (bytes rest later : List ℕ)
            → IsSent asked bytes → (held self.old ++ piece.now) ++ later ≡ bytes ++ rest → length bytes ≤ limit_in self.old
            → depth (message_of asked) < 16 → ⊥) }
        // A request that came whole is never refused as one that was cut.
        ensures uncut { IsOpen self.old → IfErr result IsUncut }
        ensures closed { OnErr result (is_closed self.new) }
        ensures stays { is_closed self.old → result ≡ Err refusal.Closed }
        ensures limit { limit_in self.new ≡ limit_in self.old }
    {
        read_as();
        if self.closed {
            return Err(StreamRefusal::Closed);
        }
        self.closed = true;
        match self.scanner.scan(piece) {
            Ok(Scan::Whole { used }) => {
                let (end, rest) = piece.split_at(used.min(piece.len()));
                if self.bytes.extend_from_slice(end).is_err() {
                    return Err(StreamRefusal::NotRequest(Error::OutOfMemory));
                }
                match first_request(alloc, self.bytes.as_slice()) {
                    Ok((request, _)) => {
                        self.bytes.clear();
                        self.closed = false;
                        Ok(Some((request, rest)))
                    }
                    Err(e) => Err(StreamRefusal::NotRequest(e)),
                }
            }
            Ok(Scan::More) => {
                if self.bytes.extend_from_slice(piece).is_err() {
                    return Err(StreamRefusal::NotRequest(Error::OutOfMemory));
                }
                self.closed = false;
                Ok(None)
            }
            Err(e) => Err(refusal_for(&e)),
        }
    }

    /// Whether the peer left nothing half sent: no byte of a request is held.
    pub fn is_between(&self) -> bool
        ensures { (result ≡ true) ↔ (held self.now ≡ []) }
    {
        self.bytes.is_empty()
    }
}

// What a scanner's error is told as.
fn refusal_for(error: &Error) -> StreamRefusal
    ensures { result ≡ refusal_for error.now }
{
    match error {
        Error::TypeMismatch(_) => StreamRefusal::Reserved,
        Error::Syntax(_) => StreamRefusal::TooLong,
        Error::InvalidMarkerRead(_) => StreamRefusal::Closed,
        Error::InvalidDataRead(_) => StreamRefusal::Closed,
        Error::OutOfRange => StreamRefusal::Closed,
        Error::LengthMismatch(_) => StreamRefusal::Closed,
        Error::Uncategorized(_) => StreamRefusal::Closed,
        Error::Utf8Error(_) => StreamRefusal::Closed,
        Error::DepthLimitExceeded => StreamRefusal::Closed,
        Error::OutOfMemory => StreamRefusal::Closed,
        Error::NotCanonical => StreamRefusal::Closed,
    }
}
