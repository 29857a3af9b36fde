//! The records.
ghost use Rattle.std.specs.Prelude.{◌≡◌, ◌≢◌, ◌↔◌, ◌<◌, ◌++◌, List, ℕ, [], ◌∷◌, OnErr, OnOk, IfOk, IfErr, IfSome, All, Some, None, length};
ghost use Rattle.example_records.specs.Held.{held, written, IsRecord, IsCut, is_memory};
ghost use Rattle.rmp_wire.specs.Msg.{Msg, depth};
ghost use Rattle.rmp_wire.specs.Spelling.{Fits, Spells};
ghost use Rattle.rmp_decode.specs.Exact.{IsEnd};
ghost use Rattle.rmp_decode.specs.Law.{Begins, Readable};
ghost use Rattle.rmp_encode.specs.Calls.{default_settings, ToVecFails};
ghost use Rattle.rmp_encode.specs.Trees.{tree_of};
ghost use Rattle.rmp_scan.specs.Scans.{IsBeginning};
ghost use Rattle.rmp_serde.specs.Explaining.{ExplainsRead, error_in};
ghost use Rattle.rmp_serde.specs.Read.{AllTextsUtf8, reads_value};
ghost use Rattle.rmp_serde.specs.ValueData.{value_data};

use rmp_serde::decode::Error;
use rmp_serde::{
    Deserializer, Explained, Value, encode, from_slice_explained, laws, message_len, to_vec,
};
use std::alloc::Global;

/// The content of a log file.
#[derive(Drop)]
pub struct Records {
    bytes: Vec<u8>,
}

impl Records {
    /// Makes an empty log.
    pub fn new(alloc: Global) -> Records
        ensures { held result ≡ [] }
    {
        Records {
            bytes: Vec::new(alloc),
        }
    }

    /// Returns the bytes for the file.
    pub fn as_slice(&self) -> &[u8]
        ensures { result.now ≡ held self.now }
    {
        self.bytes.as_slice()
    }

    /// Appends a record.
    ///
    /// # Errors
    /// Those of `to_vec`, and `OutOfMemory` if the log can't grow. Then nothing is appended.
    pub fn append(&mut self, alloc: Global, entry: &Value) -> Result<(), encode::Error>
        // Its canonical encoding follows what was there.
        ensures added { OnOk result ((ms : List Msg) → held self.old ≡ written ms → held self.new ≡ written (ms ++ entry.now ∷ [])) }
        ensures kept { OnErr result (held self.new ≡ held self.old) }
        ensures err { IfErr result (ToVecFails (tree_of default_settings (Some (value_data entry.now)))) }
    {
        let bytes = to_vec(alloc, entry)?;
        laws::value_is_its_tree();
        match self.bytes.extend_from_slice(bytes.as_slice()) {
            Ok(()) => Ok(()),
            Err(_) => Err(encode::Error::OutOfMemory),
        }
    }
}

/// Reads the first record of a log, and returns it with the bytes after it.
///
/// # Errors
/// Each error except `OutOfMemory` says that the log begins with no whole record.
pub fn next_record<'de>(alloc: Global, log: &'de [u8]) -> Result<(Value, &'de [u8]), Error>
    // What was appended first comes back. What was appended after it remains, with what is there of a cut
    // record.
    ensures back { IfOk result (λ r. (m : Msg) (ms : List Msg) (cut : List ℕ) → Fits m → log.now ≡ written (m ∷ ms) ++ cut
        → (r.0 ≡ m) × (r.1.now ≡ written ms ++ cut)) }
    // A whole record that nests below the limit, and whose texts are UTF-8, isn't refused.
    ensures whole { IfErr result (λ e. e ≢ Error.OutOfMemory → (m : Msg) (ms : List Msg) (cut : List ℕ) → Fits m → AllTextsUtf8 m
        → depth m < 1024 → log.now ≡ written (m ∷ ms) ++ cut → ⊥) }
    // What is there of a cut record is no record.
    ensures cut { IfOk result (λ r. IsCut log.now → ⊥) }
    // An error whose `is_incomplete` is true says that the log is the beginning of a message.
    ensures incomplete { IfErr result (λ e. IsEnd e → IsBeginning log.now) }
    ensures shorter { IfOk result (λ r. length r.1.now < length log.now) }
{
    laws::an_end_is_inside_a_message(log);
    let mut de = Deserializer::from_read_ref(alloc, log);
    match Value::read(&mut de) {
        Ok(value) => Ok((value, de.remaining_slice())),
        Err(e) => Err(e),
    }
}

/// Reads the whole records of a log, and returns them with the bytes after the last: none, or what is there of
/// a cut record.
///
/// # Errors
/// Only `OutOfMemory`.
pub fn replay<'de>(alloc: Global, log: &'de [u8]) -> Result<(Vec<Value>, &'de [u8]), Error>
    // What was appended whole comes back, in order, and what is there of a cut record remains.
    ensures back { IfOk result (λ r. (ms : List Msg) (cut : List ℕ) → All IsRecord ms → IsCut cut → log.now ≡ written ms ++ cut
        → (r.0.items ≡ ms) × (r.1.now ≡ cut)) }
    ensures memory { IfErr result (λ e. e ≡ Error.OutOfMemory) }
{
    let mut records = Vec::new(alloc);
    let mut rest = log;
    loop {
        match next_record(alloc, rest) {
            Ok((record, following)) => {
                records.push(record)?;
                rest = following;
            }
            Err(error) => {
                if is_memory(&error) {
                    return Err(error);
                }
                return Ok((records, rest));
            }
        }
    }
}

/// What follows the last whole record of a log.
#[derive(Clone, Copy, Debug, PartialEq)]
pub enum Tail {
    /// Nothing.
    Clean,
    /// The beginning of a record, whose end is missing.
    Cut,
    /// Bytes that begin no record, or a whole message that is no record.
    Broken,
}

/// Tells a record that was cut from one that is broken, by what `replay` leaves.
pub fn tail_of(rest: &[u8]) -> Tail
    ensures clean { (result ≡ Tail.Clean) ↔ (rest.now ≡ []) }
    ensures cut { (result ≡ Tail.Cut) ↔ ((rest.now ≢ []) × IsBeginning rest.now) }
{
    if rest.is_empty() {
        return Tail::Clean;
    }
    match message_len(rest) {
        Ok(None) => Tail::Cut,
        Ok(Some(_)) => Tail::Broken,
        Err(_) => Tail::Broken,
    }
}

/// Explains for a log why the bytes that `replay` leaves begin with no record. `None`: they begin with one.
pub fn explain_tail(alloc: Global, rest: &[u8]) -> Option<Explained>
    // The line names the part that is wrong,
    ensures explained { IfSome result (ExplainsRead rest.now) }
    // and there is no record, or memory ran out.
    ensures some { IfSome result (λ e. error_in e ≢ Error.OutOfMemory → Begins Spells (Readable reads_value) 1024 rest.now → ⊥) }
    ensures none { result ≡ None → Begins Spells (Readable reads_value) 1024 rest.now }
{
    match from_slice_explained::<Value>(alloc, rest) {
        Ok(_) => None,
        Err(refused) => Some(refused),
    }
}

// Whether the error is `OutOfMemory`.
fn is_memory(error: &Error) -> bool
    ensures { result ≡ is_memory error.now }
{
    match error {
        Error::OutOfMemory => true,
        Error::InvalidMarkerRead(_) => false,
        Error::InvalidDataRead(_) => false,
        Error::TypeMismatch(_) => false,
        Error::OutOfRange => false,
        Error::LengthMismatch(_) => false,
        Error::Uncategorized(_) => false,
        Error::Syntax(_) => false,
        Error::Utf8Error(_) => false,
        Error::DepthLimitExceeded => false,
        Error::NotCanonical => false,
    }
}
