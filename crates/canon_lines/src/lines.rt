//! Lines of hex: how the input is read, and how what each line comes to is printed.
ghost use Rattle.std.specs.Prelude.{◌≡◌, ◌≢◌, ◌<◌, ◌⊎◌, ◌++◌, ◌∷◌, ℕ, Bool, List, [], length, false, true, IfOk, OnOk, IfErr, IfSome};
ghost use Rattle.std.specs.Io.KnownBytes.{Appends, Consumes};
ghost use Rattle.canon_lines.specs.Input.{StopsReading, ReadsInput};
ghost use Rattle.canon_lines.specs.Lines.{lines_in, lines_left, NoEnd};
ghost use Rattle.canon_lines.specs.Messages.{refused_text, error_name, no_hex_text};
ghost use Rattle.canon_lines.specs.Output.{answer_of, PrintsLines, PrintsRun};
ghost use Rattle.canon_lines.specs.Prints.{line, IsStart, PrintsLine, StartsLine, PrintsAll, StartsAll, Puts};
ghost use Rattle.canon_lines.specs.Refusals.{refusal_text};
ghost use Rattle.canon_lines.specs.Texts.{text_bytes};

use crate::digits::decode_line;
use crate::text::Text;
use hex::FromHexError;
use rmp_decode::Error;
use rmp_serde::wire::{Sink, Source, ValueWriteError};
use std::alloc::{AllocError, Global};
use std::{fmt, io};

// How many bytes of the input are looked at together for the end of a line.
const BLOCK: usize = 16;

// How many bytes of the input are pulled at a time, at most.
const CHUNK: usize = 4096;

/// Why a run ended early.
#[derive(Debug, Drop)]
pub enum RunFault {
    /// The arguments or the input couldn't be read.
    Input(io::Error),
    /// The output couldn't be written.
    Output(io::Error),
    /// Memory was wanting, here or in the output.
    Memory,
}

impl From<AllocError> for RunFault {
    ghost use Rattle.canon_lines.specs.declared.lines.RunFault.TheVariants.{Memory};

    ghost from_gives = { λ _ fault. fault ≡ Memory };

    fn from(_e: AllocError) -> RunFault {
        RunFault::Memory
    }
}

/// Why printing stopped. A `RunFault` would hold the sink's error, whose bytes each call copies where it succeeds too.
#[derive(Clone, Copy)]
pub enum Stop {
    /// The sink failed. Its error was put aside.
    Output,
    /// Memory was wanting, here or in the output.
    Memory,
}

impl From<AllocError> for Stop {
    ghost use Rattle.canon_lines.specs.declared.lines.Stop.TheVariants.{Memory};

    ghost from_gives = { λ _ stop. stop ≡ Memory };

    fn from(_e: AllocError) -> Stop {
        Stop::Memory
    }
}

/// Why a line, or a message in it, was refused.
#[derive(Drop)]
pub enum Refusal {
    /// The line isn't hex.
    Hex,
    /// No message begins at this place of the line's bytes.
    Message(usize, Error),
    /// The head at this offset of the line's bytes isn't canonical.
    Fault(usize),
}

impl fmt::Display for Refusal {
    ghost use Rattle.std.specs.Prelude.{Some};
    ghost use Rattle.canon_lines.specs.Prints.{line, PrintsMessages, PrintsLine, PrintsAll, Puts};
    ghost use Rattle.canon_lines.specs.Refusals.{refusal_text};

    ghost output = { λ r. Some (refusal_text r) };

    fn fmt<W: fmt::Write>(&self, f: &mut fmt::Formatter<W>) -> fmt::Result {
        match self {
            Refusal::Hex => write!(f, "refused: hex"),
            Refusal::Message(at, error) => write!(f, "refused at {at}: {}", name_of(error)),
            Refusal::Fault(at) => write!(f, "fault at {at}"),
        }
    }
}

// The name of an error's variant.
fn name_of(error: &Error) -> &'static str
    ensures { result.now ≡ error_name error.now }
{
    match error {
        Error::InvalidMarkerRead(_) => "InvalidMarkerRead",
        Error::InvalidDataRead(_) => "InvalidDataRead",
        Error::TypeMismatch(_) => "TypeMismatch",
        Error::OutOfRange => "OutOfRange",
        Error::LengthMismatch(_) => "LengthMismatch",
        Error::Uncategorized(_) => "Uncategorized",
        Error::Syntax(_) => "Syntax",
        Error::Utf8Error(_) => "Utf8Error",
        Error::DepthLimitExceeded => "DepthLimitExceeded",
        Error::OutOfMemory => "OutOfMemory",
        Error::NotCanonical => "NotCanonical",
    }
}

// Appends bytes to others. Where these fill their memory, it grows by an eighth, so that little of it is left unused.
fn append(input: &mut Vec<u8>, piece: &[u8]) -> Result<(), AllocError>
    ensures ok { OnOk result (input.new.items ≡ input.old.items ++ piece.now) }
{
    if input.capacity() - input.len() < piece.len() {
        input.reserve_exact((input.len() / 8).saturating_add(piece.len()))?;
    }
    input.extend_from_slice(piece)
}

/// Reads the source to its end.
pub fn read_to_end<R: Source>(alloc: Global, source: &mut R) -> Result<Vec<u8>, RunFault>
    ensures taken { IfOk result (λ v. Consumes (R.ahead source.old) (R.ahead source.new) v.items) }
    ensures whole { IfOk result (λ v. IfSome (R.ahead source.old) (λ input. v.items ≡ input)) }
    ensures sound { OnOk result (R.faults source.new ≡ R.faults source.old) }
    ensures stops { IfErr result (StopsReading (R.faults source.old) (R.faults source.new)) }
    ensures place { R.place source.new ≡ R.place source.old }
{
    let mut input = Vec::new(alloc);
    let mut chunk = [0; CHUNK];
    loop {
        match source.pull(&mut chunk) {
            Ok(0) => return Ok(input),
            Ok(n) => append(&mut input, &chunk[..n])?,
            Err(e) => return Err(RunFault::Input(e)),
        }
    }
}

/// Prints a text and the end of its line, as one piece. Where the sink fails, `fault` is its error.
#[inline(always)]
pub fn print_line<W: Sink>(sink: &mut W, text: &mut Text, fault: &mut io::Error) -> Result<(), Stop>
    ensures line { OnOk result (Appends (W.told sink.old) (W.told sink.new) (line (text_bytes text.old))) }
    ensures prints { PrintsLines W.Sink sink.old sink.new result }
    ensures early { IfErr result (λ e. Puts W.Sink (IsStart (line (text_bytes text.old))) sink.old sink.new) }
{
    text.end_line()?;
    match sink.put_all(text.as_bytes()) {
        Ok(()) => Ok(()),
        Err(ValueWriteError::InvalidMarkerWrite(e)) => {
            *fault = io::Error::from(e);
            Err(Stop::Output)
        }
        Err(ValueWriteError::InvalidDataWrite(e)) => {
            *fault = io::Error::from(e);
            Err(Stop::Output)
        }
        Err(ValueWriteError::OutOfMemory) => Err(Stop::Memory),
    }
}

/// Prints a refusal.
pub fn refuse<W: Sink>(
    alloc: Global,
    sink: &mut W,
    refusal: Refusal,
    fault: &mut io::Error,
) -> Result<bool, Stop>
    ensures refused { IfOk result (λ accepted. accepted ≡ false) }
    ensures line { OnOk result (Appends (W.told sink.old) (W.told sink.new) (line (refusal_text refusal))) }
    ensures prints { PrintsLines W.Sink sink.old sink.new result }
    ensures early { IfErr result (λ e. Puts W.Sink (IsStart (line (refusal_text refusal))) sink.old sink.new) }
{
    let mut text = Text::new(alloc);
    text.print(refusal)?;
    print_line(sink, &mut text, fault)?;
    Ok(false)
}

/// Prints the refusal of what is at an offset of a line's bytes.
pub fn refuse_message<W: Sink>(
    alloc: Global,
    sink: &mut W,
    place: usize,
    error: Error,
    fault: &mut io::Error,
) -> Result<bool, Stop>
    ensures memory { OnOk result (error ≢ Error.OutOfMemory) }
    ensures refused { IfOk result (λ accepted. accepted ≡ false) }
    ensures line { OnOk result (Appends (W.told sink.old) (W.told sink.new) (line (refused_text place error))) }
    ensures prints { PrintsLines W.Sink sink.old sink.new result }
    ensures early { IfErr result (λ e. Puts W.Sink
        (λ out. (out ≡ []) ⊎ ((error ≢ Error.OutOfMemory) × IsStart (line (refused_text place error)) out)) sink.old sink.new) }
{
    match error {
        Error::OutOfMemory => Err(Stop::Memory),
        other => refuse(alloc, sink, Refusal::Message(place, other), fault),
    }
}

// Prints the refusal of a line that isn't hex.
fn refuse_hex<W: Sink>(
    alloc: Global,
    sink: &mut W,
    error: FromHexError,
    fault: &mut io::Error,
) -> Result<bool, Stop>
    ensures hex { OnOk result (error ≢ FromHexError.OutOfMemory) }
    ensures refused { IfOk result (λ accepted. accepted ≡ false) }
    ensures line { OnOk result (Appends (W.told sink.old) (W.told sink.new) (line no_hex_text)) }
    ensures prints { PrintsLines W.Sink sink.old sink.new result }
    ensures early { IfErr result (λ e. Puts W.Sink
        (λ out. (out ≡ []) ⊎ ((error ≢ FromHexError.OutOfMemory) × IsStart (line no_hex_text) out)) sink.old sink.new) }
{
    match error {
        FromHexError::OutOfMemory => Err(Stop::Memory),
        _ => refuse(alloc, sink, Refusal::Hex, fault),
    }
}

/// What the bytes of a line print: of `run` the messages, and of `check` whether they are canonical.
pub trait Shows {
    // these bytes print this, and this says whether nothing in them is refused
    ghost shows: { List ℕ → List ℕ → Bool → Type 0 };

    // and this, where the run ends early
    ghost starts: { List ℕ → List ℕ → Type 0 };

    fn show<W: Sink>(
        &mut self,
        alloc: Global,
        bytes: &[u8],
        sink: &mut W,
        fault: &mut io::Error,
    ) -> Result<bool, Stop>
        ensures shown { IfOk result (λ accepted. Puts W.Sink (λ out. shows bytes.now out accepted) sink.old sink.new) }
        ensures early { IfErr result (λ e. Puts W.Sink (starts bytes.now) sink.old sink.new) }
        ensures prints { PrintsLines W.Sink sink.old sink.new result };
}

// Prints what a line comes to, and says whether nothing in it was refused. The memory of `bytes` is used again for each line.
fn show_line<S: Shows, W: Sink>(
    alloc: Global,
    line: &[u8],
    shows: &mut S,
    bytes: &mut Vec<u8>,
    sink: &mut W,
    fault: &mut io::Error,
) -> Result<bool, Stop>
    ensures shown { IfOk result (λ accepted. Puts W.Sink (λ out. PrintsLine S.shows line.now out accepted) sink.old sink.new) }
    ensures prints { PrintsLines W.Sink sink.old sink.new result }
    ensures early { IfErr result (λ e. Puts W.Sink (StartsLine S.starts line.now) sink.old sink.new) }
{
    match decode_line(alloc, line, bytes) {
        Ok(()) => shows.show(alloc, bytes.as_slice(), sink, fault),
        Err(e) => refuse_hex(alloc, sink, e, fault),
    }
}

// Whether no line ends in a block. It looks at all of the block, so that many bytes are compared at once.
#[inline(always)]
fn has_no_end(block: &[u8]) -> bool
    ensures none { result ≡ true → NoEnd block.now }
{
    let mut found = false;
    for i in 0..block.len() {
        found |= block[i] == b'\n';
    }
    !found
}

/// The first line, and what follows its end, where it has one.
#[inline(always)]
pub fn first_line(text: &[u8]) -> (&[u8], Option<&[u8]>)
    ensures lines { lines_in text.now ≡ result.0.now ∷ lines_left result.1 }
    ensures shorter { IfSome result.1 (λ more. length more.now < length text.now) }
{
    let mut at = 0;
    while text.len() - at >= BLOCK && has_no_end(&text[at..at + BLOCK]) {
        at += BLOCK;
    }
    while at < text.len() {
        if text[at] == b'\n' {
            return (&text[..at], Some(&text[at + 1..]));
        }
        at += 1;
    }
    (text, None)
}

// Prints what each line comes to, and says whether nothing was refused.
fn show_lines<S: Shows, W: Sink>(
    alloc: Global,
    input: &[u8],
    shows: &mut S,
    sink: &mut W,
    fault: &mut io::Error,
) -> Result<bool, Stop>
    ensures shown { IfOk result (λ accepted. Puts W.Sink (λ out. PrintsAll S.shows (lines_in input.now) out accepted) sink.old sink.new) }
    ensures prints { PrintsLines W.Sink sink.old sink.new result }
    ensures early { IfErr result (λ e. Puts W.Sink (StartsAll S.shows S.starts (lines_in input.now)) sink.old sink.new) }
{
    let mut accepted = true;
    let mut bytes = Vec::new(alloc);
    let mut left = Some(input);
    while let Some(text) = left {
        let (line, more) = first_line(text);
        accepted &= show_line(alloc, line, shows, &mut bytes, sink, fault)?;
        left = more;
    }
    Ok(accepted)
}

// What a run answers, where printing stopped at this error of the sink, if it did.
fn run_answer(answer: Result<bool, Stop>, fault: io::Error) -> Result<bool, RunFault>
    ensures { result ≡ answer_of answer fault }
{
    match answer {
        Ok(accepted) => Ok(accepted),
        Err(Stop::Output) => Err(RunFault::Output(fault)),
        Err(Stop::Memory) => Err(RunFault::Memory),
    }
}

/// Prints what each line of the input comes to, and says whether nothing was refused.
///
/// A line ends at a line feed, and the last one may lack it. One carriage return at a line's end is dropped, and spaces
/// and tabs anywhere. A line that is then empty prints nothing; the rest is read as hex, and its bytes are shown. The
/// source is read to its end before the first line is printed, and each line is one piece for the sink.
pub fn show_input<S: Shows, R: Source, W: Sink>(
    alloc: Global,
    source: &mut R,
    shows: &mut S,
    sink: &mut W,
) -> Result<bool, RunFault>
    ensures shown { IfOk result (λ accepted. IfSome (R.ahead source.old)
        (λ input. Puts W.Sink (λ out. PrintsAll S.shows (lines_in input) out accepted) sink.old sink.new)) }
    ensures reads { ReadsInput R.Source source.old source.new result }
    ensures prints { PrintsRun W.Sink sink.old sink.new result }
    ensures early { IfErr result (λ e. IfSome (R.ahead source.old) (λ input. Puts W.Sink (StartsAll S.shows S.starts (lines_in input)) sink.old sink.new)) }
{
    let input = read_to_end(alloc, source)?;
    let mut fault = io::Error::from(io::ErrorKind::Other);
    let answer = show_lines(alloc, input.as_slice(), shows, sink, &mut fault);
    run_answer(answer, fault)
}
