//! A log file of records, one after another, that is read again after its last record was cut.
#![tactic(auto)]

mod records;

pub use records::{Records, Tail, explain_tail, next_record, replay, tail_of};
