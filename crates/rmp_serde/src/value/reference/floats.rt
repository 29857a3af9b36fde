//! The floats of a part.
ghost use Rattle.std.specs.Float.{binary32};
ghost use Rattle.std.specs.Prelude.{◌≡◌, from_bits, option_map, MatchOption};
ghost use Rattle.rmp_serde.specs.Doubles.{IsDouble, NoDouble};
ghost use Rattle.rmp_serde.specs.Parts.{float32_of, tree};

use crate::value::ValueRef;
use rmp_types::Float64;
use std::num::f32_from_bits_with_nan;

impl ValueRef<'_> {
    /// Returns the 32-bit float, if it is one: a 64-bit float isn't. Of a NaN nothing but that it is one is kept.
    ///
    /// # Examples
    /// ```
    /// use rmp_serde::Value;
    ///
    /// assert_eq!(rt; Value::from_f32(alloc, 0.5).root().as_f32(), Some(0.5));
    /// assert_eq!(rt; Value::from_f64(alloc, 0.5).root().as_f32(), None);
    /// ```
    pub fn as_f32(self) -> Option<f32>
        ensures float { result ≡ option_map (from_bits binary32) (float32_of (tree self.entry)) }
    {
        let bits = self.as_f32_bits()?;
        Some(f32_from_bits_with_nan(bits))
    }

    /// Returns the double that it is, if it is a float of either size, or a whole number that a double holds exactly. Of a
    /// NaN nothing but that it is one is kept.
    ///
    /// `Float64` is read from the same messages: other encoders write 1.0 as the whole number 1.
    ///
    /// # Examples
    /// ```
    /// use rmp_serde::Value;
    ///
    /// assert_eq!(rt; Value::from_f64(alloc, 0.1).root().as_f64(), Some(0.1));
    /// assert_eq!(rt; Value::from_f32(alloc, 0.5).root().as_f64(), Some(0.5));
    /// assert_eq!(rt; Value::from_u64(alloc, 1).root().as_f64(), Some(1.0));
    /// // 2^53 + 1 is between two doubles
    /// assert_eq!(rt; Value::from_u64(alloc, 9_007_199_254_740_993).root().as_f64(), None);
    /// ```
    pub fn as_f64(self) -> Option<f64>
        ensures double { MatchOption result (NoDouble (tree self.entry)) (IsDouble (tree self.entry)) }
    {
        let float = Float64::from_head(self.node().head()).ok()?;
        Some(float.to_f64())
    }
}
