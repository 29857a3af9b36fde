//! What the derived implementations of recursive types share: definitions and lemmas, and no code.
//!
//! A crate whose types contain themselves names this library in crates.txt, and the files that `tools/derive.py` writes for the crate cite it.
//! So each such file is about its own type alone.
//!
//! - `specs::Parts` says what a type is read from that is again in a list (`Row`), in a box (`Boxed`), or an option. Such a reading goes by steps:
//!   a message is read in one more step where its parts are read in the steps before. `InSteps` is some number of them. The lemmas on it are that
//!   more steps read no less, and that parts which are each read in steps of their own are all read in one number of steps.
//! - `specs::Fields` has the same of fields with names, and `specs::Maps` of maps, with `EntriesFit`, what is known of a map's entries.
//! - `specs::Rounds`, `Leaves` and `MapRounds` are for types that are read as they were written, and need `rmp_round_trip`. What reading and writing
//!   share doesn't.
//! - `proofs::Parts`, `Fields` and `Maps` are for the functions that read: what a call leaves of a list, a struct or a map in the middle of its
//!   parts, and that the room falls from a value to its parts, so that the reading ends.
#![tactic(auto)]
