//! The engine: lines of hex in, lines of text out.
ghost use Rattle.std.specs.Prelude.{◌≡◌, ◌≢◌, false, IfOk, IfErr, IfSome, OnOk};
ghost use Rattle.rmp_decode.specs.Refuse.{Refusal};
ghost use Rattle.rmp_serde.specs.Read.{ItemsUtf8};
ghost use Rattle.rmp_serde.specs.Refuse.{UnreadFor};
ghost use Rattle.canon_lines.specs.Firsts.{TellsFirst};
ghost use Rattle.canon_lines.specs.Input.{ReadsInput};
ghost use Rattle.canon_lines.specs.Lines.{lines_in};
ghost use Rattle.canon_lines.specs.Messages.{message_text};
ghost use Rattle.canon_lines.specs.Output.{PrintsLines, PrintsRun};
ghost use Rattle.canon_lines.specs.Prints.{NoneBegins, PrintsMessages, StartsMessages, PrintsAll, StartsAll, Puts};
ghost use Rattle.canon_lines.specs.Texts.{text_bytes};

use crate::leaf::tell_flat;
use crate::lines::{self, RunFault, Shows, Stop, print_line, refuse_message};
use crate::text::Text;
use rmp_decode::{Deserializer, Error};
use rmp_serde::encode::write;
use rmp_serde::wire::{Sink, Source};
use rmp_serde::{Canon, Value, check_canonical};
use std::alloc::{AllocError, Global};
use std::io;

// How many bytes are looked at for a head that isn't canonical.
const FRONT: usize = 64;

// Whether a head that isn't canonical is among the first. Such a message isn't begun as a canonical one, which would be given up there: a
// short one took a fifth more.
fn begins_wide(alloc: Global, bytes: &[u8]) -> bool {
    let front = &bytes[..bytes.len().min(FRONT)];
    matches!(check_canonical(alloc, front), Ok(Canon::Fault(_)))
}

// The memory of a message's line, which is kept for the next one.
#[derive(Drop)]
struct Messages {
    text: Text,
    // its canonical spelling
    canonical: Vec<u8>,
}

impl Messages {
    // A message's tree and its canonical spelling in hex.
    fn tell(&mut self, alloc: Global, value: &Value) -> Result<(), AllocError>
        ensures text { OnOk result (text_bytes self.new.text ≡ message_text value.now) }
    {
        self.text.print(format_args!("{value:?}"))?;
        self.canonical.clear();
        // What has been read nests within the writer's limit, so that only memory can be wanting.
        let Ok(()) = write(alloc, &mut self.canonical, value) else {
            return Err(AllocError);
        };
        self.text.push_hex(self.canonical.as_slice())?;
        Ok(())
    }

    // Holds the text of the first message, where it is canonical, and returns how many bytes it has. It is printed as it was read.
    fn tell_canonical(&mut self, alloc: Global, bytes: &[u8]) -> Result<usize, AllocError>
        ensures told { IfOk result (λ n. n ≢ 0 → TellsFirst n bytes.now (text_bytes self.new.text)) }
    {
        let mut de = Deserializer::from_read_ref(alloc, bytes);
        de.set_strict(true);
        match Value::read(&mut de) {
            Ok(value) => {
                let len = bytes.len() - de.remaining_slice().len();
                self.text.print(format_args!("{value:?}"))?;
                self.text.push_hex(&bytes[..len])?;
                Ok(len)
            }
            Err(_) => Ok(0),
        }
    }

    // Holds the text of the first message, and returns how many bytes it has.
    fn tell_value(&mut self, alloc: Global, bytes: &[u8]) -> Result<usize, Error>
        ensures told { IfOk result (λ n. TellsFirst n bytes.now (text_bytes self.new.text)) }
        ensures none { IfErr result (λ e. e ≢ Error.OutOfMemory → NoneBegins bytes.now) }
        ensures wrong { IfErr result (λ e. e ≢ Error.OutOfMemory → Refusal false (UnreadFor false) ItemsUtf8 1024 e bytes.now) }
    {
        let mut de = Deserializer::from_read_ref(alloc, bytes);
        match Value::read(&mut de) {
            Ok(value) => match self.tell(alloc, &value) {
                Ok(()) => Ok(bytes.len() - de.remaining_slice().len()),
                Err(_) => Err(Error::OutOfMemory),
            },
            Err(error) => Err(error),
        }
    }

    // The same, without a tree where there needn't be one.
    fn tell_first(&mut self, alloc: Global, bytes: &[u8]) -> Result<usize, Error>
        ensures told { IfOk result (λ n. TellsFirst n bytes.now (text_bytes self.new.text)) }
        ensures none { IfErr result (λ e. e ≢ Error.OutOfMemory → NoneBegins bytes.now) }
        ensures wrong { IfErr result (λ e. e ≢ Error.OutOfMemory → Refusal false (UnreadFor false) ItemsUtf8 1024 e bytes.now) }
    {
        match tell_flat(bytes, &mut self.text) {
            Ok(0) => {}
            Ok(len) => return Ok(len),
            Err(_) => return Err(Error::OutOfMemory),
        }
        if begins_wide(alloc, bytes) {
            return self.tell_value(alloc, bytes);
        }
        match self.tell_canonical(alloc, bytes) {
            Ok(0) => self.tell_value(alloc, bytes),
            Ok(len) => Ok(len),
            Err(_) => Err(Error::OutOfMemory),
        }
    }
}

// Prints the messages of a line's bytes, up to the first refusal, and says whether there was none.
fn run_messages<W: Sink>(
    alloc: Global,
    bytes: &[u8],
    kept: &mut Messages,
    sink: &mut W,
    fault: &mut io::Error,
) -> Result<bool, Stop>
    ensures shown { IfOk result (λ accepted. Puts W.Sink (λ out. PrintsMessages bytes.now out accepted) sink.old sink.new) }
    ensures prints { PrintsLines W.Sink sink.old sink.new result }
    ensures early { IfErr result (λ e. Puts W.Sink (StartsMessages bytes.now) sink.old sink.new) }
{
    let mut left = bytes;
    while !left.is_empty() {
        let place = bytes.len() - left.len();
        match kept.tell_first(alloc, left) {
            Ok(len) => {
                print_line(sink, &mut kept.text, fault)?;
                left = &left[len..];
            }
            Err(error) => return refuse_message(alloc, sink, place, error, fault),
        }
    }
    Ok(true)
}

// A line's messages, each as its tree and its canonical spelling.
impl Shows for Messages {
    ghost use Rattle.canon_lines.specs.Prints.{PrintsMessages, StartsMessages};

    ghost shows = { PrintsMessages };

    ghost starts = { StartsMessages };

    fn show<W: Sink>(
        &mut self,
        alloc: Global,
        bytes: &[u8],
        sink: &mut W,
        fault: &mut io::Error,
    ) -> Result<bool, Stop> {
        run_messages(alloc, bytes, self, sink, fault)
    }
}

/// Prints what each line of the input comes to, and says whether nothing was refused.
///
/// A line ends at a line feed, and the last one may lack it. One carriage return at a line's end is dropped, and spaces
/// and tabs anywhere. A line that is then empty prints nothing; the rest is read as hex, and its messages as values: each
/// prints a line, and the first that is refused prints its offset, and the name of the error that says what is wrong
/// there first. The source is read to its end before the first line is printed, and each line is one piece for the sink.
///
/// # Errors
/// `Input` at the source's first fault, and nothing is printed then. `Output` at the sink's first fault. `Memory` where
/// memory was refused: to the sink, or here to the input, its lines, a line's digits and bytes, a message, or its text. No
/// contract can say that memory was refused, so none says that `Memory` comes only then; but no line is printed for it.
pub fn run<R: Source, W: Sink>(
    alloc: Global,
    source: &mut R,
    sink: &mut W,
) -> Result<bool, RunFault>
    // Each line is printed as its definition says, and the answer is whether nothing was refused. The input has one such
    // output and one such answer (`laws::one_output`).
    ensures shown { IfOk result (λ accepted. IfSome (R.ahead source.old)
        (λ input. Puts W.Sink (λ out. PrintsAll PrintsMessages (lines_in input) out accepted) sink.old sink.new)) }
    // The input is read to its end, or to the source's first fault.
    ensures reads { ReadsInput R.Source source.old source.new result }
    // However the run ends, what was there before stays, and whole lines follow it, or a beginning of whole lines where
    // the sink stopped.
    ensures prints { PrintsRun W.Sink sink.old sink.new result }
    // What it printed then is a beginning of what the input's lines come to.
    ensures early { IfErr result (λ e. IfSome (R.ahead source.old)
        (λ input. Puts W.Sink (StartsAll PrintsMessages StartsMessages (lines_in input)) sink.old sink.new)) }
{
    let mut shows = Messages {
        text: Text::new(alloc),
        canonical: Vec::new(alloc),
    };
    lines::show_input(alloc, source, &mut shows, sink)
}
