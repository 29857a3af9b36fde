//! Values of any type as trees, and back.
ghost use Rattle.std.specs.Prelude.{◌≡◌, ◌≢◌, ◌<◌, false, Option, Some, OnOk, IfOk, IfErr};
ghost use Rattle.rmp_encode.specs.Calls.{default_settings, named_settings, IsSpelled};
ghost use Rattle.rmp_encode.specs.Trees.{tree_of};
ghost use Rattle.rmp_decode.specs.Law.{Readable};
ghost use Rattle.rmp_decode.specs.Readers.{source_setting};
ghost use Rattle.rmp_decode.specs.declared.error.Error.TheVariants as errors;
ghost use Rattle.rmp_wire.specs.Msg.{Msg, depth};
ghost use Rattle.rmp_wire.specs.Spelling.{canon};
ghost use Rattle.rmp_serde.specs.Making.{ToValueFails};

use crate::value::Value;
use crate::{decode, encode};
use rmp_decode::{Deserialize, from_read};
use rmp_encode::{Serialize, to_vec, to_vec_named};
use rmp_wire::ReadReader;
use std::alloc::Global;
use std::io::Cursor;

// Reads the tree that bytes encode.
fn read_back(alloc: Global, bytes: &[u8]) -> Result<Value, encode::Error>
    ensures ok { (t : Option Msg) → IsSpelled t bytes.now → IfOk result (λ v. t ≡ Some v) }
    ensures err { (t : Option Msg) → IsSpelled t bytes.now → IfErr result (ToValueFails t) }
{
    match Value::from_slice(alloc, bytes) {
        Ok(value) => Ok(value),
        Err(decode::Error::DepthLimitExceeded) => Err(encode::Error::Syntax("nests too deep")),
        Err(decode::Error::Utf8Error(_)) => Err(encode::Error::Syntax("text that isn't UTF-8")),
        Err(_) => Err(encode::Error::OutOfMemory),
    }
}

/// Makes a value's tree: the one that `to_vec` writes. It is written and read again.
///
/// # Errors
/// Those of `to_vec`, and `Syntax` for what nests 1024 deep or more, or has a text that isn't UTF-8 (a `Raw` may).
///
/// # Examples
/// ```
/// use rmp_serde::to_value;
///
/// let value = to_value(alloc, &(42u8, "it"))?;
/// assert_eq!(rt; value.root().item(1).and_then(|it| it.as_str()), Some("it"));
/// ```
pub fn to_value<T: Serialize>(alloc: Global, value: &T) -> Result<Value, encode::Error>
    ensures ok { IfOk result (λ v. tree_of default_settings (T.data_of value.now false) ≡ Some v) }
    ensures value { OnOk result (T.is_value value.now) }
    ensures err { IfErr result (ToValueFails (tree_of default_settings (T.data_of value.now false))) }
{
    read_back(alloc, &to_vec(alloc, value)?)
}

/// Makes a value's tree: the one that `to_vec_named` writes, where structs are maps from field names.
///
/// # Errors
/// Those of `to_value`.
///
/// # Examples
/// ```
/// use rmp_serde::{from_slice, to_value_named};
/// use std::collections::BTreeMap;
///
/// // A type without structs has the same tree by `to_value`.
/// let ages: BTreeMap<String, u8> = from_slice(alloc, b"\x81\xa5Bobby\x08")?;
/// let value = to_value_named(alloc, &ages)?;
/// assert_eq!(rt; value.get("Bobby").and_then(|age| age.as_u64()), Some(8));
/// ```
pub fn to_value_named<T: Serialize>(alloc: Global, value: &T) -> Result<Value, encode::Error>
    ensures ok { IfOk result (λ v. tree_of named_settings (T.data_of value.now false) ≡ Some v) }
    ensures value { OnOk result (T.is_value value.now) }
    ensures err { IfErr result (ToValueFails (tree_of named_settings (T.data_of value.now false))) }
{
    read_back(alloc, &to_vec_named(alloc, value)?)
}

/// Reads a value of a type from a tree. The tree is written, and read as the type. What is read is owned: nothing is
/// borrowed from the tree.
///
/// # Errors
/// Those of `from_read` on the tree's canonical encoding. Any error but `OutOfMemory` means that the tree nests 1024
/// deep or more, or that the type doesn't read it.
///
/// # Examples
/// ```
/// use rmp_serde::{Value, from_value};
///
/// let value = Value::from_slice(alloc, &[0x92, 0x2a, 0xa2, 0x69, 0x74])?;
/// let (number, text): (u8, String) = from_value(alloc, &value)?;
/// assert_eq!(rt; number, 42);
/// assert_eq!(rt; text.as_str(), "it");
/// ```
pub fn from_value<'de, T: Deserialize<'de, ReadReader<Cursor<Vec<u8>>>>>(
    alloc: Global,
    value: &Value,
) -> Result<T, decode::Error>
    ensures ok { IfOk result (λ v. T.reads false false value.now v) }
    ensures within { OnOk result (depth value.now < 1024) }
    ensures err { IfErr result (λ e. e ≢ errors.OutOfMemory → depth value.now < 1024 → Readable (T.reads false false) value.now → ⊥) }
    // Where the type says which error names what is wrong, it is that one.
    ensures refused { IfErr result (λ e. e ≢ errors.OutOfMemory → T.refuses source_setting 0 0 (Some (canon value.now)) e) }
{
    match to_vec(alloc, value) {
        Ok(bytes) => from_read(alloc, Cursor::new(bytes)),
        Err(_) => Err(decode::Error::OutOfMemory),
    }
}
