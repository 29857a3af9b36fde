//! Types whose reads meet an end only inside of a message.
ghost use Rattle.rmp_ends.specs.EndsInside.{AlwaysInside};

use rmp_decode::Deserialize;
use rmp_wire::ReadSlice;

mod lists;
mod maps;
mod numbers;
mod options;
mod texts;
mod tuples;

/// A type whose reads meet an end only inside of a message: where the error of a read is an end, the bytes are a proper beginning of a
/// message, so that more of them may complete it.
///
/// It has no calls. Contracts of generic code use its law, by a call of `laws::ends_are_inside::<R, T>()`.
pub trait EndsInside<'de, R: ReadSlice<'de>>: Deserialize<'de, R> {
    ghost ends_inside: { AlwaysInside Self.refuses };
}
