//! Notes that are saved as one message and loaded again.
#![tactic(auto)]

mod note;
mod notes;

pub use note::Note;
pub use notes::{append, load, save};
