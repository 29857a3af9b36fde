//! Types as users write them by hand, which the samples and the tests need, and a caller that owns what it writes into.
#![tactic(auto)]

mod by_hand;
mod called;
mod newtype;
mod optional;
pub mod own_type;
pub mod structs;
mod ticket;
mod tuple_struct;
mod unknown;
mod variants;
pub mod written;

pub use by_hand::Pup;
pub use called::spell_into;
pub use newtype::NewU8;
pub use optional::OptionalByte;
pub use ticket::Ticket;
pub use tuple_struct::{TupleS, TupleS0};
pub use unknown::{UnkMap, UnkSeq};
pub use variants::Shape;
