//! Types as a user writes them: docs/OWN_TYPES.md shows how, and is about these.
mod named;
mod point;

pub use named::Named;
pub use point::Point;
