//! What a list or a map that was opened holds, part by part, and messages of any kind.
pub(crate) mod any;
pub(crate) mod field_access;
pub(crate) mod fields;
pub(crate) mod map;
pub(crate) mod names;
mod open;
pub(crate) mod parts;
pub(crate) mod read_fields;
pub(crate) mod seq;
pub(crate) mod variant;
