//! A cache of answers to questions of any type, each under the canonical encoding of its question.
#![tactic(auto)]

mod cache;

pub use cache::Cache;
