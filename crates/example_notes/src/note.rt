//! A note.
mod derived;

/// A title and a text.
#[derive(Drop)]
pub struct Note {
    pub title: String,
    pub text: String,
}
