//! Makes values that are no list and no map.
ghost use Rattle.std.specs.Float.{binary32, binary64};
ghost use Rattle.std.specs.Prelude.{◌≡◌, ◌≤◌, ◌<◌, ◌^◌, ◌∷◌, [], length, pos, to_bits, IfOk, IfErr, OnOk, OnErr};
ghost use Rattle.rmp_encode.specs.Errors.{IsTooLong};
ghost use Rattle.rmp_wire.specs.Heads.{fits_head};
ghost use Rattle.rmp_wire.specs.Msg as msg;
ghost use Rattle.rmp_decode.specs.Kinds.{content_len};
ghost use Rattle.rmp_serde.specs.Flat.{told_tree};
ghost use Rattle.rmp_serde.specs.Making.{IsBare, IsContentOf, MakeFails};

use crate::value::Value;
use crate::value::flat::Nodes;
use rmp_encode::Error;
use rmp_wire::Head;
use std::alloc::{AllocError, Global};
use std::num::{f32_to_bits_with_nan, f64_to_bits_with_nan};

// Returns a length as a head states it. One of 2 ^ 32 or more is refused.
pub(super) fn head_len(len: usize) -> Result<u32, Error>
    ensures same { IfOk result (λ n. n ≡ len) }
    ensures fits { OnOk result (len < 2 ^ 32) }
    ensures long { OnErr result (2 ^ 32 ≤ len) }
    ensures refused { IfErr result IsTooLong }
{
    if len > u32::MAX as usize {
        return Err(Error::InvalidDataModel("length past 32 bits"));
    }
    Ok(len as u32)
}

// Makes the message that is this head.
fn leaf(alloc: Global, head: Head) -> Value
    requires fits { fits_head head }
    requires bare { IsBare head }
    ensures told { result ≡ told_tree ((head, []) ∷ []) }
{
    Value::from_parts(head, 0, Nodes::new(alloc))
}

// Makes the message of this head and this content.
fn with_content(alloc: Global, head: Head, content: &[u8]) -> Result<Value, AllocError>
    requires fits { fits_head head }
    requires len { content_len head ≡ length content.now }
    requires kind { IsContentOf head content.now }
    ensures told { IfOk result (λ v. v ≡ told_tree ((head, content.now) ∷ [])) }
{
    let mut parts = Nodes::new(alloc);
    parts.bytes.extend_from_slice(content)?;
    Ok(Value::from_parts(head, 0, parts))
}

impl Value {
    /// Makes nil.
    #[tactic(auto, unfolding(rmp_wire::specs::Heads::fits_head))]
    pub fn nil(alloc: Global) -> Value
        ensures value { result ≡ msg.nil }
    {
        leaf(alloc, Head::Nil)
    }

    /// Makes `true` or `false`.
    #[tactic(auto, unfolding(rmp_wire::specs::Heads::fits_head))]
    pub fn from_bool(alloc: Global, truth: bool) -> Value
        ensures value { result ≡ msg.truth truth }
    {
        leaf(alloc, Head::Truth(truth))
    }

    /// Makes a number from 0 on.
    #[tactic(auto, unfolding(rmp_wire::specs::Heads::fits_head))]
    pub fn from_u64(alloc: Global, unsigned: u64) -> Value
        ensures value { result ≡ msg.whole (pos unsigned) }
    {
        leaf(alloc, Head::Whole(i128::from(unsigned)))
    }

    /// Makes a whole number.
    #[tactic(auto, unfolding(rmp_wire::specs::Heads::fits_head))]
    pub fn from_i64(alloc: Global, signed: i64) -> Value
        ensures value { result ≡ msg.whole signed }
    {
        leaf(alloc, Head::Whole(i128::from(signed)))
    }

    /// Makes a 32-bit float. Each NaN becomes the one of the bits 7fc00000.
    ///
    /// # Examples
    /// ```
    /// use rmp_serde::{Value, to_vec};
    ///
    /// let half = Value::from_f32(alloc, 0.5);
    /// assert_eq!(rt; to_vec(alloc, &half)?.as_slice(), [0xca, 0x3f, 0x00, 0x00, 0x00].as_slice());
    /// ```
    pub fn from_f32(alloc: Global, value: f32) -> Value
        ensures value { result ≡ msg.float32 (to_bits binary32 value) }
    {
        Value::from_f32_bits(alloc, f32_to_bits_with_nan(value))
    }

    /// Makes a 64-bit float. Each NaN becomes the one of the bits 7ff8000000000000.
    ///
    /// # Examples
    /// ```
    /// use rmp_serde::{Value, to_vec};
    ///
    /// let half = Value::from_f64(alloc, 0.5);
    /// assert_eq!(rt; to_vec(alloc, &half)?.as_slice(), [0xcb, 0x3f, 0xe0, 0, 0, 0, 0, 0, 0].as_slice());
    /// assert_eq!(rt; half.root().as_f64(), Some(0.5));
    /// ```
    pub fn from_f64(alloc: Global, value: f64) -> Value
        ensures value { result ≡ msg.float64 (to_bits binary64 value) }
    {
        Value::from_f64_bits(alloc, f64_to_bits_with_nan(value))
    }

    /// Makes a 32-bit float of its bits.
    #[tactic(auto, unfolding(rmp_wire::specs::Heads::fits_head))]
    pub fn from_f32_bits(alloc: Global, bits: u32) -> Value
        ensures value { result ≡ msg.float32 bits }
    {
        leaf(alloc, Head::F32Bits(bits))
    }

    /// Makes a 64-bit float of its bits.
    #[tactic(auto, unfolding(rmp_wire::specs::Heads::fits_head))]
    pub fn from_f64_bits(alloc: Global, bits: u64) -> Value
        ensures value { result ≡ msg.float64 bits }
    {
        leaf(alloc, Head::F64Bits(bits))
    }

    /// Makes a text, of which it keeps a copy.
    ///
    /// # Errors
    /// `InvalidDataModel` for a length of 2 ^ 32 or more, and otherwise `OutOfMemory`.
    ///
    /// # Examples
    /// ```
    /// use rmp_serde::{Value, to_vec};
    ///
    /// let name = Value::from_text(alloc, "Bobby")?;
    /// assert_eq!(rt; name.root().as_str(), Some("Bobby"));
    /// assert_eq!(rt; to_vec(alloc, &name)?.as_slice(), b"\xa5Bobby".as_slice());
    /// ```
    #[tactic(auto, unfolding(rmp_wire::specs::Heads::fits_head))]
    pub fn from_text(alloc: Global, text: &str) -> Result<Value, Error>
        ensures value { IfOk result (λ v. v ≡ msg.text text.now) }
        ensures err { IfErr result (MakeFails (length text.now)) }
    {
        let len = head_len(text.len())?;
        Ok(with_content(alloc, Head::Text(len), text.as_bytes())?)
    }

    /// Makes bytes, of which it keeps a copy.
    ///
    /// # Errors
    /// Those of `from_text`.
    ///
    /// # Examples
    /// ```
    /// use rmp_serde::{Value, to_vec};
    ///
    /// let bytes = Value::from_bytes(alloc, &[1, 2])?;
    /// assert_eq!(rt; to_vec(alloc, &bytes)?.as_slice(), [0xc4, 2, 1, 2].as_slice());
    /// ```
    #[tactic(auto, unfolding(rmp_wire::specs::Heads::fits_head))]
    pub fn from_bytes(alloc: Global, bytes: &[u8]) -> Result<Value, Error>
        ensures value { IfOk result (λ v. v ≡ msg.bin bytes.now) }
        ensures err { IfErr result (MakeFails (length bytes.now)) }
    {
        let len = head_len(bytes.len())?;
        Ok(with_content(alloc, Head::Bin(len), bytes)?)
    }

    /// Makes an extension of its type and its bytes, of which it keeps a copy.
    ///
    /// # Errors
    /// Those of `from_text`.
    ///
    /// # Examples
    /// ```
    /// use rmp_serde::{Value, to_vec};
    ///
    /// let point = Value::from_ext(alloc, 7, &[1, 2])?;
    /// assert_eq!(rt; to_vec(alloc, &point)?.as_slice(), [0xd5, 7, 1, 2].as_slice());
    /// ```
    #[tactic(auto, unfolding(rmp_wire::specs::Heads::fits_head))]
    pub fn from_ext(alloc: Global, tag: i8, bytes: &[u8]) -> Result<Value, Error>
        ensures value { IfOk result (λ v. v ≡ msg.extension tag bytes.now) }
        ensures err { IfErr result (MakeFails (length bytes.now)) }
    {
        let len = head_len(bytes.len())?;
        Ok(with_content(alloc, Head::Ext(len, tag), bytes)?)
    }
}
