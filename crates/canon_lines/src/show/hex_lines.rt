//! Lines of hex, and the messages of each as people read them.
ghost use Rattle.std.specs.Prelude.{◌≡◌, ◌≢◌, ◌+◌, Some, IfOk, OnOk, IfErr, IfSome};
ghost use Rattle.canon_lines.specs.HexLines.{ShowsAll, ShowsLine, StartsLines, StartsLine};
ghost use Rattle.canon_lines.specs.Lines.{lines_in};
ghost use Rattle.canon_lines.specs.Prints.{Puts};
ghost use Rattle.canon_lines.specs.Shows.{PutsBoth};

use crate::digits::decode_line;
use crate::lines::{RunFault, first_line, read_to_end};
use crate::show::complaint::of_line;
use crate::show::{Complaint, Form, complain, show_messages};
use hex::FromHexError;
use rmp_serde::wire::{Sink, Source};
use std::alloc::Global;

// Why a line prints nothing that isn't hex.
fn no_hex(number: u64, error: FromHexError) -> Result<Option<Complaint>, RunFault>
    ensures hex { OnOk result (error ≢ FromHexError.OutOfMemory) }
    ensures told { IfOk result (λ complaint. complaint ≡ Some (Complaint.NoHex number)) }
{
    match error {
        FromHexError::OutOfMemory => Err(RunFault::Memory),
        _ => Ok(Some(Complaint::NoHex(number))),
    }
}

#[tactic(auto, using(crate::proofs::ShownLines::puts_start))]
// Prints the messages of a line, up to the first that can't be read, and returns why there are no more. The memory of `bytes` is used
// again for each line.
fn show_line<W: Sink>(
    alloc: Global,
    number: u64,
    line: &[u8],
    form: Form,
    bytes: &mut Vec<u8>,
    sink: &mut W,
) -> Result<Option<Complaint>, RunFault>
    ensures shown { IfOk result (λ complaint. Puts W.Sink (λ out. ShowsLine form number line.now out complaint) sink.old sink.new) }
    ensures early { IfErr result (λ e. Puts W.Sink (StartsLine form line.now) sink.old sink.new) }
{
    match decode_line(alloc, line, bytes) {
        Ok(()) => {
            let refused = show_messages(alloc, &mut bytes.as_slice(), form, sink)?;
            Ok(of_line(number, refused))
        }
        Err(e) => no_hex(number, e),
    }
}

// The number of the next line. There is none where it has more than 64 bits.
fn next_number(number: u64) -> Result<u64, RunFault>
    ensures { IfOk result (λ n. n ≡ number + 1) }
{
    match number.checked_add(1) {
        Some(next) => Ok(next),
        None => Err(RunFault::Memory),
    }
}

// Prints the messages of each line, and says whether all can be read.
fn show_each<W: Sink, E: Sink>(
    alloc: Global,
    input: &[u8],
    form: Form,
    sink: &mut W,
    errors: &mut E,
) -> Result<bool, RunFault>
    ensures shown { IfOk result (λ accepted. PutsBoth W.Sink E.Sink
        (λ out told. ShowsAll form 1 (lines_in input.now) out told accepted) sink.old sink.new errors.old errors.new) }
    ensures early { IfErr result (λ e. Puts W.Sink (StartsLines form (lines_in input.now)) sink.old sink.new) }
{
    let mut accepted = true;
    let mut number: u64 = 1;
    let mut bytes = Vec::new(alloc);
    let mut left = Some(input);
    while let Some(text) = left {
        let (line, more) = first_line(text);
        let next = next_number(number)?;
        let complaint = show_line(alloc, number, line, form, &mut bytes, sink)?;
        accepted &= complain(alloc, complaint, errors)?;
        number = next;
        left = more;
    }
    Ok(accepted)
}

/// Prints the messages of each line of hex as people read them, and says whether all can be read. What can't be read is told of to
/// `errors`, and the next line goes on.
///
/// A line is that of `run`. Its messages have numbers and offsets of their own. The source is read to its end before the first
/// line is printed.
///
/// # Errors
/// As `show`.
pub fn show_lines<R: Source, W: Sink, E: Sink>(
    alloc: Global,
    source: &mut R,
    form: Form,
    sink: &mut W,
    errors: &mut E,
) -> Result<bool, RunFault>
    // Each line prints what its bytes come to, in order, and nothing where it isn't hex. The errors tell of each line that isn't hex, or has
    // a message that can't be read.
    ensures shown { IfOk result (λ accepted. IfSome (R.ahead source.old)
        (λ input. PutsBoth W.Sink E.Sink (λ out told. ShowsAll form 1 (lines_in input) out told accepted) sink.old sink.new errors.old errors.new)) }
    // If the run ends early, what it printed is a beginning of that.
    ensures early { IfErr result (λ e. IfSome (R.ahead source.old)
        (λ input. Puts W.Sink (StartsLines form (lines_in input)) sink.old sink.new)) }
{
    let input = read_to_end(alloc, source)?;
    show_each(alloc, input.as_slice(), form, sink, errors)
}
