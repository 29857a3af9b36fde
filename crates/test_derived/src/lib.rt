//! Types that are declared alone, whose implementations and proofs tools/derive.py wrote, and callers that promise nothing.
#![tactic(auto)]

mod called;
mod defaults;
mod enums;
mod kinds;
mod renamed;
mod rounds;
mod structs;
mod versions;

pub use called::{older, restocked};
pub use defaults::{Level, Lists, Once, Page, Proxy, Server};
pub use enums::{Four, Mixed, Two, V12};
pub use kinds::{Either, Guests, Kennel, Pair, Row, Sorted};
pub use renamed::{Parcel, Way};
pub use rounds::{kennels_come_back, sorted_come_back};
pub use structs::{Counted, Dog, Newtype, Opt, Point, Unit};
pub use versions::{First, Second};
