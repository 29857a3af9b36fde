//! Messages as people read them: bytes in, a line for each message out.
mod complaint;
mod held;
pub mod hex_lines;
pub mod options;
mod refused;

ghost use Rattle.std.specs.Prelude.{◌≡◌, ◌+◌, ◌<◌, ◌^◌, IfOk, IfErr, IfSome, OnOk};
ghost use Rattle.std.specs.Option.{is_none};
ghost use Rattle.std.specs.Io.KnownBytes.{Appends};
ghost use Rattle.canon_lines.specs.Complaints.{told_of};
ghost use Rattle.canon_lines.specs.Held.{front_len, Pulls};
ghost use Rattle.canon_lines.specs.Prints.{line, IsStart, Puts};
ghost use Rattle.canon_lines.specs.Shows.{form_text, PutsBoth, Shows, ShowsInput, StartsShowing, Tells, TellsNext};
ghost use Rattle.canon_lines.specs.Texts.{text_bytes};

use crate::buffer::remove_front;
use crate::lines::{RunFault, Stop, print_line};
pub use crate::show::complaint::Complaint;
use crate::show::complaint::of_input;
use crate::show::held::{Front, find};
use crate::show::refused::refused_part;
pub use crate::show::refused::{Content, Refused, Why};
use crate::text::Text;
use rmp_decode::Deserializer;
use rmp_serde::wire::{Sink, Source};
use rmp_serde::{Path, Value};
use std::alloc::{AllocError, Global};
use std::io;

/// How a message is laid out.
#[derive(Clone, Copy)]
pub enum Form {
    /// On one line.
    Line,
    /// With a line for each part, indented.
    Indented,
}

/// What bytes begin with.
#[derive(Drop)]
pub enum Told {
    /// A message of so many bytes.
    Message(usize),
    /// None: this part is refused, for this reason.
    Refused(Path, Why),
}

// Holds the text of a message.
fn tell_value(value: &Value, form: Form, text: &mut Text) -> Result<(), AllocError>
    ensures text { OnOk result (text_bytes text.new ≡ form_text form value.now) }
{
    match form {
        Form::Line => text.print(format_args!("{}", value.readable())),
        Form::Indented => text.print(format_args!("{}", value.readable().pretty())),
    }
}

// Holds the text of the first message, or says what is refused there.
fn tell_first(alloc: Global, bytes: &[u8], form: Form, text: &mut Text) -> Result<Told, AllocError>
    ensures told { IfOk result (Tells form bytes.now (text_bytes text.new)) }
{
    let mut de = Deserializer::from_read_ref(alloc, bytes);
    match Value::read(&mut de) {
        Ok(value) => {
            tell_value(&value, form, text)?;
            Ok(Told::Message(bytes.len() - de.remaining_slice().len()))
        }
        Err(error) => {
            let taken = bytes.len().saturating_sub(de.remaining_slice().len());
            let (path, why) = refused_part(alloc, bytes, taken, &error)?;
            Ok(Told::Refused(path, why))
        }
    }
}

// How many of the bytes that are held are looked at: `None` at the end of the input.
fn front_len(front: Front, held: &[u8]) -> Option<usize>
    ensures { result ≡ front_len front held.now }
{
    match front {
        Front::Message(len) => Some(len),
        Front::Nothing | Front::Rest => Some(held.len()),
        Front::End => None,
    }
}

#[tactic(auto, using(crate::proofs::ShownNext::next_told, crate::proofs::ShownNext::next_none, crate::proofs::ShownNext::looked_within))]
// Pulls the next message, and holds its text, or says what is refused there. `None` is the end of the input.
fn tell_next<R: Source>(
    alloc: Global,
    source: &mut R,
    held: &mut Vec<u8>,
    form: Form,
    text: &mut Text,
) -> Result<Option<Told>, RunFault>
    ensures pulled { OnOk result (Pulls R.Source held.old.items held.new.items source.old source.new) }
    ensures told { IfOk result (TellsNext form (R.ahead source.old) held.old.items held.new.items (text_bytes text.new)) }
    ensures place { R.place source.new ≡ R.place source.old }
{
    let front = find(held, source)?;
    let Some(len) = front_len(front, held.as_slice()) else {
        return Ok(None);
    };
    Ok(Some(tell_first(alloc, &held[..len], form, text)?))
}

// Where the next message begins.
#[derive(Clone, Copy)]
struct Place {
    // the first message has 1
    number: u64,
    offset: u64,
}

impl Place {
    // The place after a message of so many bytes. There is none where it has more than 64 bits.
    fn after(self, len: usize) -> Result<Place, RunFault>
        ensures number { IfOk result (λ p. p.number ≡ self.number + 1) }
        ensures offset { IfOk result (λ p. p.offset ≡ self.offset + len) }
        ensures below { IfOk result (λ p. p.offset < 2 ^ 64) }
    {
        let (Some(number), Some(offset)) = (
            self.number.checked_add(1),
            self.offset.checked_add(len as u64),
        ) else {
            return Err(RunFault::Memory);
        };
        Ok(Place { number, offset })
    }
}

// Prints a text and the end of its line.
fn print_text<W: Sink>(sink: &mut W, text: &mut Text) -> Result<(), RunFault>
    ensures line { OnOk result (Appends (W.told sink.old) (W.told sink.new) (line (text_bytes text.old))) }
    ensures early { IfErr result (λ e. Puts W.Sink (IsStart (line (text_bytes text.old))) sink.old sink.new) }
    ensures place { W.place sink.new ≡ W.place sink.old }
{
    let mut fault = io::Error::from(io::ErrorKind::Other);
    match print_line(sink, text, &mut fault) {
        Ok(()) => Ok(()),
        Err(Stop::Output) => Err(RunFault::Output(fault)),
        Err(Stop::Memory) => Err(RunFault::Memory),
    }
}

// Prints the messages of a source, up to the first that can't be read, which it returns.
fn show_messages<R: Source, W: Sink>(
    alloc: Global,
    source: &mut R,
    form: Form,
    sink: &mut W,
) -> Result<Option<Refused>, RunFault>
    ensures shown { IfOk result (λ refused. IfSome (R.ahead source.old)
        (λ input. Puts W.Sink (λ out. Shows form input out refused) sink.old sink.new)) }
    ensures early { IfErr result (λ e. IfSome (R.ahead source.old)
        (λ input. Puts W.Sink (StartsShowing form input) sink.old sink.new)) }
{
    let mut held = Vec::new(alloc);
    let mut text = Text::new(alloc);
    let mut place = Place {
        number: 1,
        offset: 0,
    };
    'messages: loop {
        match tell_next(alloc, source, &mut held, form, &mut text)? {
            None => return Ok(None),
            Some(Told::Message(len)) => {
                let next = place.after(len)?;
                print_text(sink, &mut text)?;
                remove_front(&mut held, len);
                place = next;
            }
            Some(Told::Refused(path, why)) => {
                let part = place.after(path.place())?;
                return Ok(Some(Refused {
                    number: place.number,
                    offset: part.offset,
                    path,
                    why,
                }));
            }
        }
    }
}

// Prints why something can't be shown, if there is a reason, and says whether there is none.
fn complain<E: Sink>(
    alloc: Global,
    complaint: Option<Complaint>,
    errors: &mut E,
) -> Result<bool, RunFault>
    ensures told { OnOk result (Appends (E.told errors.old) (E.told errors.new) (told_of complaint)) }
    ensures accepted { IfOk result (λ accepted. accepted ≡ is_none complaint) }
    ensures early { IfErr result (λ e. Puts E.Sink (IsStart (told_of complaint)) errors.old errors.new) }
    ensures place { E.place errors.new ≡ E.place errors.old }
{
    let Some(complaint) = complaint else {
        return Ok(true);
    };
    let mut text = Text::new(alloc);
    text.print(complaint)?;
    print_text(errors, &mut text)?;
    Ok(false)
}

/// Prints the messages of a source as people read them, up to the first that can't be read, and says whether there was none. Why it
/// can't be read, and where, is printed to `errors`.
///
/// A message at a time is held, with up to 4096 bytes that follow it. A message is printed when its last byte has come. Each
/// text is one piece for the sink.
///
/// # Errors
/// `Input` at the source's first fault, and what was whole before is printed. `Output` at the first fault of one of the sinks. `Memory`
/// where memory was refused, to a sink or here, and where a message's number or offset has more than 64 bits.
pub fn show<R: Source, W: Sink, E: Sink>(
    alloc: Global,
    source: &mut R,
    form: Form,
    sink: &mut W,
    errors: &mut E,
) -> Result<bool, RunFault>
    // Each message is printed as its definition says, up to the first that can't be read, of which the errors tell. The answer is whether there
    // is none.
    ensures shown { IfOk result (λ accepted. IfSome (R.ahead source.old)
        (λ input. PutsBoth W.Sink E.Sink (λ out told. ShowsInput form input out told accepted) sink.old sink.new errors.old errors.new)) }
    // If the run ends early, what it printed is a beginning of that.
    ensures early { IfErr result (λ e. IfSome (R.ahead source.old)
        (λ input. Puts W.Sink (StartsShowing form input) sink.old sink.new)) }
{
    let refused = show_messages(alloc, source, form, sink)?;
    complain(alloc, of_input(refused), errors)
}
