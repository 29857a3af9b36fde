//! Frames: written, and read from peers that aren't trusted.
ghost use Rattle.std.specs.Prelude.{◌≡◌, Some, None, ◌≢◌, ◌≤◌, ◌<◌, ◌+◌, ◌++◌, List, ℕ, false, true, length, IfOk, IfErr, IfSome, [], ◌∷◌};
ghost use Rattle.example_frames.specs.Frames.{SaysLength, message_of, IsFrame, Asks, Taken, NoneFor, RefusedFor, StopsFor, WrongFor};
ghost use Rattle.example_frames.specs.declared.frames.Refusal.TheVariants as refusal;
ghost use Rattle.rmp_decode.specs.declared.error.Error.TheVariants.{OutOfMemory};
ghost use Rattle.rmp_decode.specs.Exact.{IsEnd};
ghost use Rattle.rmp_decode.specs.Law.{Begins, Readable};
ghost use Rattle.rmp_encode.specs.Calls.{default_settings};
ghost use Rattle.rmp_encode.specs.Trees.{tree_of};
ghost use Rattle.rmp_encode.specs.declared.error.Error.TheVariants as encode_error;
ghost use Rattle.rmp_scan.specs.Scans.{IsBeginning};
ghost use Rattle.rmp_serde.specs.Explaining.{ExplainsRead, error_in};
ghost use Rattle.rmp_serde.specs.Read.{AllTextsUtf8};
ghost use Rattle.rmp_wire.specs.Msg.{depth};
ghost use Rattle.rmp_wire.specs.Spelling.{Fits, Spells};

use crate::request::Request;
use rmp_serde::decode::{Deserialize, Error};
use rmp_serde::encode::Serialize;
use rmp_serde::{Deserializer, Explained, encode, explain, laws, to_vec};
use rmp_wire::ReadRefReader;
use rmp_wire::read::number_32;
use std::alloc::Global;

/// The depth limit of a request: it must nest below this.
const MAX_DEPTH: usize = 16;

/// Why a peer's bytes are refused.
#[derive(Debug, Drop, thiserror::Error)]
pub enum Refusal {
    /// They end before the frame does: more may follow.
    #[error("the frame is cut")]
    Cut,
    /// The frame's length is this, past the limit. Its content wasn't looked at.
    #[error("a frame of {0} bytes is too long")]
    TooLong(u32),
    /// The frame's content isn't a request, or memory ran out.
    #[error("not a request: {0}")]
    NotRequest(Error),
    /// More bytes follow the request in its frame.
    #[error("the frame is longer than its request")]
    Longer,
}

/// Returns the frame of a request.
///
/// # Errors
/// Those of `to_vec`, and `InvalidDataModel` for a request of 2 ^ 32 bytes or more.
pub fn write_request(alloc: Global, request: &Request) -> Result<Vec<u8>, encode::Error>
    ensures written { IfOk result (λ frame. IsFrame request.now frame.items) }
    // A request that has a frame is refused only out of memory.
    ensures refused { IfErr result (λ e. e ≢ encode_error.OutOfMemory → (frame : List ℕ) → IsFrame request.now frame → ⊥) }
{
    written_as();
    let body = match to_vec(alloc, request) {
        Ok(body) => body,
        Err(e) => return Err(e),
    };
    let Ok(len) = u32::try_from(body.len()) else {
        return Err(encode::Error::InvalidDataModel("request too long"));
    };
    let mut frame = Vec::new(alloc);
    frame.extend_from_slice(&len.to_be_bytes())?;
    frame.extend_from_slice(body.as_slice())?;
    Ok(frame)
}

/// Reads the request in the first frame, and returns it with the bytes after the frame.
///
/// # Errors
/// Each `Refusal`, for the reason that it names.
pub fn next_request<'de>(
    alloc: Global,
    bytes: &'de [u8],
    limit: u32,
) -> Result<(Request, &'de [u8]), Refusal>
    // A frame within the limit was consumed, and the request is all of its content.
    ensures taken { IfOk result (λ r. Taken (⟦<Request as Deserialize<'de, ReadRefReader<'de>>>⟧.reads false true) limit r.0 r.1.now bytes.now) }
    // If a peer wrote the frame, it is the peer's request, and the bytes after the frame remain.
    ensures back { IfOk result (λ r. (asked : Request) (frame rest : List ℕ) → IsFrame asked frame → bytes.now ≡ frame ++ rest
        → (r.0 ≡ asked) × (r.1.now ≡ rest)) }
    // Each refusal has its reason,
    ensures refused { IfErr result (RefusedFor (⟦<Request as Deserialize<'de, ReadRefReader<'de>>>⟧.reads false true)
        ⟦<Request as Deserialize<'de, ReadRefReader<'de>>>⟧.refuses limit bytes.now) }
    // and what a peer wrote within the limits is refused only out of memory.
    ensures whole { IfErr result (λ e. e ≢ refusal.NotRequest OutOfMemory → (asked : Request) (frame rest : List ℕ) → IsFrame asked frame
        → bytes.now ≡ frame ++ rest → length frame ≤ 4 + limit → depth (message_of asked) < 16 → ⊥) }
{
    read_as();
    let (body, rest) = match next_frame(bytes, limit) {
        Ok(parts) => parts,
        Err(e) => return Err(e),
    };
    match request_in(alloc, body) {
        Ok(request) => Ok((request, rest)),
        Err(e) => Err(e),
    }
}

/// Explains why a frame's content, which follows the four bytes of its length, is no request. It returns `None` where the content begins
/// with one.
pub fn explain_request<'de>(alloc: Global, content: &'de [u8]) -> Option<Explained>
    // The line names the part that is wrong,
    ensures explained { IfSome result (ExplainsRead content.now) }
    // and no request begins there, or memory ran out.
    ensures some { IfSome result (λ e. NoneFor (⟦<Request as Deserialize<'de, ReadRefReader<'de>>>⟧.reads false true)
        ⟦<Request as Deserialize<'de, ReadRefReader<'de>>>⟧.refuses content.now (error_in e)) }
    ensures none { result ≡ None → Begins Spells (Readable (⟦<Request as Deserialize<'de, ReadRefReader<'de>>>⟧.reads false true)) 16 content.now }
{
    let mut de = Deserializer::from_read_ref(alloc, content);
    de.set_max_depth(MAX_DEPTH);
    match Request::deserialize(&mut de) {
        Ok(_) => return None,
        Err(e) => return Some(explain(&de, e)),
    }
}

// What a request is written as.
pub(crate) fn written_as()
    ensures tree { (r : Request) → tree_of default_settings (⟦<Request as Serialize>⟧.data_of r false) ≡ Some (message_of r) }
    ensures texts { (r : Request) → ⟦<Request as Serialize>⟧.is_value r → AllTextsUtf8 (message_of r) }
{}

// What is read of that message: the request, and no other.
pub(crate) fn read_as<'de>()
    ensures reads { (r : Request) → Fits (message_of r) → AllTextsUtf8 (message_of r)
        → ⟦<Request as Deserialize<'de, ReadRefReader<'de>>>⟧.reads false true (message_of r) r }
    ensures one { (r s : Request) → ⟦<Request as Deserialize<'de, ReadRefReader<'de>>>⟧.reads false true (message_of r) s → s ≡ r }
{}

// Splits the bytes into the content of the first frame and the bytes after the frame.
fn next_frame<'de>(bytes: &'de [u8], limit: u32) -> Result<(&'de [u8], &'de [u8]), Refusal>
    ensures ok { IfOk result (λ r. SaysLength (length r.0.now) (r.0.now ++ r.1.now) bytes.now × (length r.0.now ≤ limit)) }
    ensures err { IfErr result (StopsFor limit bytes.now) }
{
    let mut rest: &[u8] = bytes;
    let Ok(len) = number_32(&mut rest) else {
        return Err(Refusal::Cut);
    };
    if len > limit {
        return Err(Refusal::TooLong(len));
    }
    if rest.len() < len as usize {
        return Err(Refusal::Cut);
    }
    Ok(rest.split_at(len as usize))
}

// Reads the request that is all of a frame's content.
fn request_in<'de>(alloc: Global, body: &'de [u8]) -> Result<Request, Refusal>
    ensures ok { IfOk result (λ r. Asks (λ m. ⟦<Request as Deserialize<'de, ReadRefReader<'de>>>⟧.reads false true m r) [] body.now) }
    ensures err { IfErr result (WrongFor (⟦<Request as Deserialize<'de, ReadRefReader<'de>>>⟧.reads false true)
        ⟦<Request as Deserialize<'de, ReadRefReader<'de>>>⟧.refuses body.now) }
{
    match first_request(alloc, body) {
        Ok((request, rest)) => {
            if rest.is_empty() {
                Ok(request)
            } else {
                Err(Refusal::Longer)
            }
        }
        Err(e) => Err(Refusal::NotRequest(e)),
    }
}

// Reads the request that the bytes begin with, and returns it with what follows it.
pub(crate) fn first_request<'de>(
    alloc: Global,
    bytes: &'de [u8],
) -> Result<(Request, &'de [u8]), Error>
    ensures ok { IfOk result (λ r. Asks (λ m. ⟦<Request as Deserialize<'de, ReadRefReader<'de>>>⟧.reads false true m r.0) r.1.now bytes.now) }
    ensures err { IfErr result (NoneFor (⟦<Request as Deserialize<'de, ReadRefReader<'de>>>⟧.reads false true)
        ⟦<Request as Deserialize<'de, ReadRefReader<'de>>>⟧.refuses bytes.now) }
    // An error whose `is_incomplete` is true says that more bytes may complete a message.
    ensures incomplete { IfErr result (λ e. IsEnd e → IsBeginning bytes.now) }
{
    laws::ends_are_inside::<ReadRefReader<'de>, Request>(bytes);
    let mut de = Deserializer::from_read_ref(alloc, bytes);
    de.set_max_depth(MAX_DEPTH);
    match Request::deserialize(&mut de) {
        Ok(request) => Ok((request, de.remaining_slice())),
        Err(e) => Err(e),
    }
}
