//! A struct that contains itself in options and lists, whose implementation tools/derive.py writes. Its name is a word of proofs.
mod derived;

/// A list of things to do, with other lists: the next, those below it, and places, some of which hold one.
#[derive(Drop)]
pub struct List {
    // derive: default = 1
    pub times: u16,
    pub next: Option<Box<List>>,
    pub below: Option<Vec<List>>,
    pub places: Vec<Option<Box<List>>>,
}
