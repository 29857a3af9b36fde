//! What an error that is an end says of the bytes. It is the contract of a function that does nothing.
//!
//! A caller uses the law by calling its function: what the call ensures is the law, for every argument.
ghost use Rattle.std.specs.Prelude.{ℕ, Some};
ghost use Rattle.rmp_decode.specs.Exact.{IsEnd};
ghost use Rattle.rmp_decode.specs.Refusing.{Setting};
ghost use Rattle.rmp_decode.specs.declared.error.Error.{Error};
ghost use Rattle.rmp_ends.specs.EndsInside.{AlwaysInside};
ghost use Rattle.rmp_scan.specs.Scans.{IsBeginning, MessageEnds};

use crate::ends_inside::EndsInside;
use rmp_wire::ReadSlice;

/// A read of a `T` from this slice meets its end only where more bytes would complete a message: where `is_incomplete` is true of its
/// error, `message_len` of the slice is `None`. And where that is `Some`, no read of a `T` from the slice meets its end.
///
/// `refused` of `from_slice` and of `from_slice_strict` says what is asked of the error.
pub fn ends_are_inside<'de, R: ReadSlice<'de>, T: EndsInside<'de, R>>(input: &[u8])
    ensures begins { (s : Setting) (e : Error) → T.refuses s 0 0 (Some input.now) e → IsEnd e → IsBeginning input.now }
    ensures whole { (s : Setting) (n : ℕ) (e : Error) → T.refuses s 0 0 (Some input.now) e → MessageEnds input.now n → IsEnd e → ⊥ }
{
    always_inside::<R, T>();
}

// What the trait says of a type.
fn always_inside<'de, R: ReadSlice<'de>, T: EndsInside<'de, R>>()
    ensures { AlwaysInside T.refuses }
{}
