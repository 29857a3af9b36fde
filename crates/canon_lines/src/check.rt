//! The checker: of the messages on each line, which are spelled canonically.
ghost use Rattle.std.specs.Prelude.{◌≡◌, IfOk, IfErr, IfSome};
ghost use Rattle.canon_lines.specs.Checks.{PrintsChecks, StartsChecks};
ghost use Rattle.canon_lines.specs.Input.{ReadsInput};
ghost use Rattle.canon_lines.specs.Lines.{lines_in};
ghost use Rattle.canon_lines.specs.Output.{PrintsLines, PrintsRun};
ghost use Rattle.canon_lines.specs.Prints.{PrintsAll, StartsAll, Puts};

use crate::lines::{self, Refusal, RunFault, Shows, Stop, print_line, refuse, refuse_message};
use crate::text::Text;
use rmp_serde::wire::{Sink, Source};
use rmp_serde::{Canon, check_canonical};
use std::alloc::Global;
use std::io;

// Prints which of the messages of a line's bytes are canonical, up to the first fault or refusal, and says whether there
// was none.
fn check_messages<W: Sink>(
    alloc: Global,
    bytes: &[u8],
    text: &mut Text,
    sink: &mut W,
    fault: &mut io::Error,
) -> Result<bool, Stop>
    ensures shown { IfOk result (λ accepted. Puts W.Sink (λ out. PrintsChecks bytes.now out accepted) sink.old sink.new) }
    ensures prints { PrintsLines W.Sink sink.old sink.new result }
    ensures early { IfErr result (λ e. Puts W.Sink (StartsChecks bytes.now) sink.old sink.new) }
{
    let mut left = bytes;
    while !left.is_empty() {
        let place = bytes.len() - left.len();
        match check_canonical(alloc, left) {
            Ok(Canon::Whole(len)) => {
                text.print(format_args!("canonical {len}"))?;
                print_line(sink, text, fault)?;
                left = &left[len..];
            }
            Ok(Canon::Fault(at)) => return refuse(alloc, sink, Refusal::Fault(place + at), fault),
            Err(error) => return refuse_message(alloc, sink, place, error, fault),
        }
    }
    Ok(true)
}

// A line's messages, each by the length of its canonical spelling. The memory of a printed line is kept for the next one.
#[derive(Drop)]
struct Checks {
    text: Text,
}

impl Shows for Checks {
    ghost use Rattle.canon_lines.specs.Checks.{PrintsChecks, StartsChecks};

    ghost shows = { PrintsChecks };

    ghost starts = { StartsChecks };

    fn show<W: Sink>(
        &mut self,
        alloc: Global,
        bytes: &[u8],
        sink: &mut W,
        fault: &mut io::Error,
    ) -> Result<bool, Stop> {
        check_messages(alloc, bytes, &mut self.text, sink, fault)
    }
}

/// Prints which of the messages on each line of the input are spelled canonically, and says whether all were.
///
/// Lines, hex and lack of memory are those of `run`. Each canonical message prints a line with its length. The first that
/// isn't canonical ends its line, and prints the offset in the line's bytes of the first head that isn't canonical,
/// whatever follows that head. Where the bytes stop being a message before such a head, the message is refused at its
/// first byte.
///
/// # Errors
/// As `run`.
pub fn check<R: Source, W: Sink>(
    alloc: Global,
    source: &mut R,
    sink: &mut W,
) -> Result<bool, RunFault>
    // Each line is printed as its definition says, and the answer is whether nothing was at fault or refused. The input has
    // one such output and one such answer (`laws::one_check`).
    ensures shown { IfOk result (λ accepted. IfSome (R.ahead source.old)
        (λ input. Puts W.Sink (λ out. PrintsAll PrintsChecks (lines_in input) out accepted) sink.old sink.new)) }
    // The input is read to its end, or to the source's first fault.
    ensures reads { ReadsInput R.Source source.old source.new result }
    // However the run ends, what was there before stays, and whole lines follow it, or a beginning of whole lines where
    // the sink stopped.
    ensures prints { PrintsRun W.Sink sink.old sink.new result }
    // What it printed then is a beginning of what the input's lines come to.
    ensures early { IfErr result (λ e. IfSome (R.ahead source.old)
        (λ input. Puts W.Sink (StartsAll PrintsChecks StartsChecks (lines_in input)) sink.old sink.new)) }
{
    let mut shows = Checks {
        text: Text::new(alloc),
    };
    lines::show_input(alloc, source, &mut shows, sink)
}
