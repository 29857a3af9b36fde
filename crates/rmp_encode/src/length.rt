//! Lengths. A head has room for those below 2 ^ 32.
ghost use Rattle.std.specs.Prelude.{◌≡◌, ◌^◌, ◌<◌, ◌≤◌, OnOk, OnErr, IfOk, IfErr};
ghost use Rattle.rmp_encode.specs.Errors.{IsTooLong};

use crate::error::Error;

// The error of a length that is too large.
#[inline(always)]
pub(crate) fn too_long() -> Error
    ensures { IsTooLong result }
{
    Error::InvalidDataModel("length past 32 bits")
}

// Returns the length as a head states it. One of 2 ^ 32 or more is refused.
#[inline(always)]
pub(crate) fn fits_u32(len: usize) -> Result<u32, Error>
    ensures same { IfOk result (λ n. n ≡ len) }
    ensures fits { OnOk result (len < 2 ^ 32) }
    ensures long { OnErr result (2 ^ 32 ≤ len) }
    ensures refused { IfErr result IsTooLong }
{
    if len > u32::MAX as usize {
        return Err(too_long());
    }
    Ok(len as u32)
}
