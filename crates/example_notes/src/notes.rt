//! Notes are added to a list, saved and loaded.
ghost use Rattle.std.specs.Global.{Vec};
ghost use Rattle.std.specs.Prelude.{◌≡◌, ◌≢◌, ◌++◌, [], ◌∷◌, IfErr, IfOk, OnErr, OnOk};
ghost use Rattle.example_notes.specs.Saved.{AreSame, HasRoom, IsSaved};
ghost use Rattle.rmp_encode.specs.declared.error.Error.TheVariants as write_errors;

use crate::note::Note;
use rmp_serde::decode::Error;
use rmp_serde::{encode, from_slice, to_vec};
use std::alloc::{AllocFailed, Global};

/// Adds a note at the end.
///
/// # Errors
/// Out of memory. The list is unchanged.
pub fn append(notes: &mut Vec<Note>, note: Note) -> Result<(), AllocFailed<Note>>
    ensures added { OnOk result (notes.new.items ≡ notes.old.items ++ note ∷ []) }
    ensures kept { OnErr result (notes.new.items ≡ notes.old.items) }
{
    notes.push(note)
}

/// The bytes that the notes are saved as.
///
/// # Errors
/// `OutOfMemory`, or a length past 32 bits (`InvalidDataModel`).
pub fn save(alloc: Global, notes: &Vec<Note>) -> Result<Vec<u8>, encode::Error>
    ensures saved { IfOk result (λ bytes. IsSaved notes.now bytes.items) }
    // Notes whose lengths fit are refused only where memory is.
    ensures whole { IfErr result (λ e. e ≢ write_errors.OutOfMemory → HasRoom notes.now → ⊥) }
{
    to_vec(alloc, notes)
}

/// The notes that were saved as these bytes.
///
/// # Errors
/// Those of `from_slice`: the bytes are no list of notes, or memory was refused.
pub fn load(alloc: Global, bytes: &[u8]) -> Result<Vec<Note>, Error>
    // What was saved comes back,
    ensures back { IfOk result (λ notes. (saved : Vec Note) → IsSaved saved bytes.now → AreSame notes saved) }
    // and is refused only where memory is.
    ensures whole { IfErr result (λ e. e ≢ Error.OutOfMemory → (saved : Vec Note) → IsSaved saved bytes.now → ⊥) }
{
    from_slice(alloc, bytes)
}
