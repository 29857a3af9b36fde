//! Reads values only from the bytes that are written of them.
ghost use Rattle.std.specs.Prelude.{◌≡◌, ◌≢◌, ◌<◌, ◌⊎◌, ℕ, suc, true, false, Some, IfOk, IfErr, MatchResult, OnOk};
ghost use Rattle.rmp_encode.specs.Calls.{default_settings, named_settings, IsSpelled, ToVecFails};
ghost use Rattle.rmp_encode.specs.Trees.{tree_of};
ghost use Rattle.rmp_encode.specs.declared.error.Error.TheVariants as errors;
ghost use Rattle.rmp_decode.specs.Law.{Begins, Readable};
ghost use Rattle.rmp_decode.specs.Refusing.{slice_setting};
ghost use Rattle.rmp_round_trip.specs.RoundTrip.{LowersTo};
ghost use Rattle.rmp_wire.specs.Canonical.{IsCanonical};
ghost use Rattle.rmp_wire.specs.Msg.{depth};
ghost use Rattle.rmp_serde.specs.Explaining.{Explains, error_in, position_in};
ghost use Rattle.rmp_serde.specs.Otherwise.{settings_for, DifferAt, ReadsOther};
ghost use Rattle.rmp_serde.specs.Refuse.{IsWrittenElse};

use crate::decode::Error;
use crate::refusal::{Explained, from_slice_strict_explained};
use crate::{encode, laws};
use rmp_decode::from_slice_strict;
use rmp_encode::{Serialize, to_vec, to_vec_named};
use rmp_round_trip::RoundTrip;
use rmp_wire::ReadRefReader;
use std::alloc::Global;

/// Reads the value for which `to_vec` writes exactly the input. A strict read also accepts a map's keys in another
/// order or twice, unknown names, a variant by its number, and bytes after the message; this call refuses them. It is
/// for cache keys and signatures.
///
/// # Errors
/// Those of `from_slice_strict`, and `NotCanonical` if a value is read, but written otherwise. Any error but
/// `OutOfMemory` means that the input isn't what is written of a value that nests below the limit.
///
/// # Examples
/// ```
/// use rmp_serde::decode::Error;
/// use rmp_serde::from_slice_canonical;
///
/// let pair: (u8, bool) = from_slice_canonical(alloc, &[0x92, 0x2a, 0xc3])?;
/// assert_eq!(rt; pair.0, 42);
/// let more: Result<(u8, bool), Error> = from_slice_canonical(alloc, &[0x92, 0x2a, 0xc3, 0xc0]);
/// assert!(rt; matches!(more, Err(Error::NotCanonical)));
/// ```
pub fn from_slice_canonical<'de, T: RoundTrip<'de, ReadRefReader<'de>>>(
    alloc: Global,
    input: &'de [u8],
) -> Result<T, Error>
    // The input is what is written of the value,
    ensures written { IfOk result (λ v. T.is_value v × IsSpelled (tree_of default_settings (T.data_of v false)) input.now) }
    // and the value is what is read of the input.
    ensures read { IfOk result (λ v. Begins IsCanonical (λ m. T.reads false true m v) 1024 input.now) }
    // A refusal that isn't for memory means that the input isn't what is written of a value.
    ensures err { IfErr result (λ e. e ≢ Error.OutOfMemory → (v : T) → T.is_value v → LowersTo default_settings (T.data_of v false) (λ m. depth m < 1024)
        → IsSpelled (tree_of default_settings (T.data_of v false)) input.now → ⊥) }
    // It is the strict read's, or of a value that was read: it is written otherwise, or memory ran out.
    ensures refused { IfErr result (λ e. T.Deserialize.refuses (slice_setting true) 0 0 (Some input.now) e
        ⊎ (Begins IsCanonical (Readable (T.reads false true)) 1024 input.now × IsWrittenElse e)) }
{
    laws::values_come_back::<ReadRefReader<'de>, T>();
    let value: T = match from_slice_strict(alloc, input) {
        Ok(value) => value,
        Err(e) => return Err(e),
    };
    let written = to_vec(alloc, &value);
    if_written(value, written, input)
}

/// Reads the value for which `to_vec_named` writes exactly the input: structs are maps from the names of their fields,
/// in order.
///
/// # Errors
/// Those of `from_slice_canonical`.
pub fn from_slice_canonical_named<'de, T: RoundTrip<'de, ReadRefReader<'de>>>(
    alloc: Global,
    input: &'de [u8],
) -> Result<T, Error>
    ensures written { IfOk result (λ v. T.is_value v × IsSpelled (tree_of named_settings (T.data_of v false)) input.now) }
    ensures read { IfOk result (λ v. Begins IsCanonical (λ m. T.reads false true m v) 1024 input.now) }
    ensures err { IfErr result (λ e. e ≢ Error.OutOfMemory → (v : T) → T.is_value v → LowersTo named_settings (T.data_of v false) (λ m. depth m < 1024)
        → IsSpelled (tree_of named_settings (T.data_of v false)) input.now → ⊥) }
    ensures refused { IfErr result (λ e. T.Deserialize.refuses (slice_setting true) 0 0 (Some input.now) e
        ⊎ (Begins IsCanonical (Readable (T.reads false true)) 1024 input.now × IsWrittenElse e)) }
{
    laws::values_come_back::<ReadRefReader<'de>, T>();
    let value: T = match from_slice_strict(alloc, input) {
        Ok(value) => value,
        Err(e) => return Err(e),
    };
    let written = to_vec_named(alloc, &value);
    if_written(value, written, input)
}

/// How structs are written.
#[derive(Clone, Copy, Debug, PartialEq, Eq)]
pub enum Structs {
    /// As lists of their fields: `to_vec`.
    Lists,
    /// As maps from the names of their fields: `to_vec_named`.
    Maps,
}

/// Reads the value for which `to_vec` or `to_vec_named` writes exactly the input, as `from_slice_canonical` and
/// `from_slice_canonical_named` do. An error says where in the input it is: where a value is read, but written otherwise,
/// that is the part with the first byte that differs.
///
/// # Errors
/// Those of `from_slice_canonical`.
///
/// # Examples
/// ```
/// use rmp_serde::{Structs, from_slice_canonical_explained};
/// use std::collections::BTreeMap;
///
/// // {"b": 1, "a": 2}, whose keys aren't in order
/// let input = b"\x82\xa1b\x01\xa1a\x02";
/// let read = from_slice_canonical_explained::<BTreeMap<String, u8>>(alloc, input, Structs::Lists);
/// if let Err(refused) = read {
///     let why = format!(in alloc; "{refused}")?;
///     assert_eq!(rt; why.as_str(), "not canonical at {key 0} (byte 1): a text of 1 byte");
/// }
/// ```
pub fn from_slice_canonical_explained<'de, T: RoundTrip<'de, ReadRefReader<'de>>>(
    alloc: Global,
    input: &'de [u8],
    structs: Structs,
) -> Result<T, Explained>
    ensures written { IfOk result (λ v. T.is_value v × IsSpelled (tree_of (settings_for structs) (T.data_of v false)) input.now) }
    ensures read { IfOk result (λ v. Begins IsCanonical (λ m. T.reads false true m v) 1024 input.now) }
    ensures err { IfErr result (λ e. error_in e ≢ Error.OutOfMemory → (v : T) → T.is_value v
        → LowersTo (settings_for structs) (T.data_of v false) (λ m. depth m < 1024)
        → IsSpelled (tree_of (settings_for structs) (T.data_of v false)) input.now → ⊥) }
    // It is the strict read's, or the position is that of the first difference from what is written of the value.
    ensures refused { IfErr result (λ e. T.Deserialize.refuses (slice_setting true) 0 0 (Some input.now) (error_in e)
        ⊎ ReadsOther (T.reads false true) (λ v. tree_of (settings_for structs) (T.data_of v false)) input.now e) }
    ensures explained { IfErr result (λ e. (levels : ℕ) × Explains input.now (position_in e) levels (error_in e) e) }
{
    laws::values_come_back::<ReadRefReader<'de>, T>();
    let value: T = match from_slice_strict_explained(alloc, input) {
        Ok(value) => value,
        Err(refused) => return Err(refused),
    };
    let written = write_as(alloc, &value, structs);
    let position = past_difference(&written, input);
    match if_written(value, written, input) {
        Ok(value) => Ok(value),
        Err(e) => Err(Explained::new(alloc, input, position, 0, e)),
    }
}

// What is written of a value.
fn write_as<T: Serialize>(
    alloc: Global,
    value: &T,
    structs: Structs,
) -> Result<Vec<u8>, encode::Error>
    ensures bytes { IfOk result (λ v. IsSpelled (tree_of (settings_for structs) (T.data_of value.now false)) v.items) }
    ensures value { OnOk result (T.is_value value.now) }
    ensures err { IfErr result (ToVecFails (tree_of (settings_for structs) (T.data_of value.now false))) }
{
    match structs {
        Structs::Lists => to_vec(alloc, value),
        Structs::Maps => to_vec_named(alloc, value),
    }
}

// How many bytes there are up to the first that differs, and with it, or 0 where nothing was written.
fn past_difference(written: &Result<Vec<u8>, encode::Error>, input: &[u8]) -> usize
    ensures { MatchResult written.now (λ b. (at : ℕ) × (result ≡ suc at) × DifferAt b.items input.now at) (λ _. result ≡ 0) }
{
    match written {
        Ok(bytes) => first_difference(bytes.as_slice(), input) + 1,
        Err(_) => 0,
    }
}

// The place of the first byte that differs, or of the end of the one that ends first.
fn first_difference(one: &[u8], other: &[u8]) -> usize
    ensures { DifferAt one.now other.now result }
{
    let mut at = 0;
    while at < one.len() && at < other.len() && one[at] == other[at] {
        at += 1;
    }
    at
}

// The value, where the input is what was written of it.
fn if_written<T: Drop>(
    value: T,
    written: Result<Vec<u8>, encode::Error>,
    input: &[u8],
) -> Result<T, Error>
    ensures ok { IfOk result (λ v. (v ≡ value) × MatchResult written (λ b. b.items ≡ input.now) (λ _. ⊥)) }
    ensures err { IfErr result (λ e. e ≢ Error.OutOfMemory → MatchResult written (λ b. b.items ≢ input.now) (λ e. e ≢ errors.OutOfMemory)) }
    ensures which { IfErr result IsWrittenElse }
{
    match written {
        Ok(bytes) => {
            if bytes.as_slice() == input {
                Ok(value)
            } else {
                Err(Error::NotCanonical)
            }
        }
        Err(encode::Error::OutOfMemory) => Err(Error::OutOfMemory),
        Err(_) => Err(Error::NotCanonical),
    }
}
