//! The errors of messages that aren't of the wanted kind.
ghost use Rattle.std.specs.Prelude.{◌≡◌, ◌≢◌};
ghost use Rattle.rmp_decode.specs.Kinds.{other_kind, other_number};

use crate::error::Error;
use crate::text::Text;
use rmp_wire::{Head, Marker};

// The error of a message of another kind in the place of a truth, a number or the bits of a float.
pub(crate) fn other_kind(marker: Marker, head: Head) -> Error
    ensures same { result ≡ other_kind marker head }
    ensures memory { result ≢ Error.OutOfMemory }
{
    match head {
        Head::Nil | Head::Truth(_) | Head::Whole(_) | Head::F32Bits(_) | Head::F64Bits(_) => {
            Error::Syntax(Text::InvalidType)
        }
        _ => Error::TypeMismatch(marker),
    }
}

// The error of a message in the place of a number in a range.
pub(crate) fn other_number(marker: Marker, head: Head) -> Error
    ensures same { result ≡ other_number marker head }
    ensures memory { result ≢ Error.OutOfMemory }
{
    match head {
        Head::Whole(_) => Error::Syntax(Text::InvalidValue),
        _ => other_kind(marker, head),
    }
}
