//! A record in two versions, each of which reads what the other wrote.
mod derived;

/// A level as it was kept first.
#[derive(Drop)]
pub struct First {
    pub place: String,
    pub level: u16,
}

/// The same in another order, and with a field that older records don't have.
#[derive(Drop)]
pub struct Second {
    pub level: u16,
    pub note: Option<String>,
    pub place: String,
}
