//! A struct that contains itself, whose implementation tools/derive.py writes.
mod derived;

/// A node with the nodes below it.
#[derive(Drop)]
pub struct Rose {
    pub kids: Vec<Rose>,
}
