//! Values as JSON has them, whose implementations tools/derive.py writes.
mod derived;

use std::collections::BTreeMap;

/// A value as JSON has it.
#[derive(Drop)]
pub enum Json {
    Null,
    Bool(bool),
    Number(i64),
    Text(String),
    List(Vec<Json>),
    Object(BTreeMap<String, Json>),
}
