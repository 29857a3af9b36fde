//! What is told of what can't be shown.
ghost use Rattle.std.specs.Prelude.{◌≡◌};
ghost use Rattle.canon_lines.specs.Complaints.{in_input, in_line};

use crate::show::refused::Refused;
use std::fmt;

/// Why something can't be shown.
#[derive(Drop)]
pub enum Complaint {
    /// A message of the input.
    Input(Refused),
    /// A message of the line of this number.
    Line(u64, Refused),
    /// The line of this number isn't hex.
    NoHex(u64),
}

impl fmt::Display for Complaint {
    ghost use Rattle.std.specs.Prelude.{Some};
    ghost use Rattle.canon_lines.specs.Complaints.{complaint_text};

    ghost output = { λ c. Some (complaint_text c) };

    fn fmt<W: fmt::Write>(&self, f: &mut fmt::Formatter<W>) -> fmt::Result {
        match self {
            Complaint::Input(refused) => write!(f, "{refused}"),
            Complaint::Line(number, refused) => write!(f, "line {number}, {refused}"),
            Complaint::NoHex(number) => write!(f, "line {number}: refused: no hex"),
        }
    }
}

/// Of an input the message that can't be read, if there is one.
pub fn of_input(refused: Option<Refused>) -> Option<Complaint>
    ensures { result ≡ in_input refused }
{
    match refused {
        Some(refused) => Some(Complaint::Input(refused)),
        None => None,
    }
}

/// The same of a line.
pub fn of_line(number: u64, refused: Option<Refused>) -> Option<Complaint>
    ensures { result ≡ in_line number refused }
{
    match refused {
        Some(refused) => Some(Complaint::Line(number, refused)),
        None => None,
    }
}
