//! A recursive enum whose variants hold several values, some of types of its own, whose implementation tools/derive.py writes.
mod derived;

const LEAST: i16 = -1;

/// How tasks are done.
#[derive(Drop)]
pub enum Order {
    Together,
    // derive: rename = "one-by-one"
    InTurn,
}

/// When a task is done: its first hour and its last.
#[derive(Drop)]
pub struct Span {
    pub first: u32,
    pub last: Option<u32>,
}

/// A task that is made of others.
#[derive(Drop)]
pub enum Task {
    Idle,
    Move(i32, i32),
    After(Option<(u32, u32)>, Box<Task>),
    // derive: rename_all = "camelCase"
    Wait {
        at_least: u16,
        then_call: Vec<String>,
    },
    Run {
        order: Order,
        span: Span,
        // derive: default = LEAST
        least: i16,
        steps: Vec<Task>,
        otherwise: Option<Box<Task>>,
    },
}
