//! Doubles, from floats of either size and from whole numbers.
#![tactic(auto, unfolding(rmp_encode::specs::Data::lower), using(rmp_encode::proofs::Parts::part_memory))]

ghost use Rattle.std.proofs.Common.{refl};
ghost use Rattle.std.specs.Prelude.{◌≡◌, ◌<◌, ◌^◌, None, Some, false, IfErr, IfOk, from_bits, to_bits};
ghost use Rattle.std.specs.Float.{binary64};
ghost use Rattle.rmp_encode.specs.Data.{float64};
ghost use Rattle.rmp_encode.specs.Refusals.{OfSink};
ghost use Rattle.rmp_encode.specs.Writes.{AtItem};
ghost use Rattle.rmp_decode.specs.Exact.{RefusesExactly};
ghost use Rattle.rmp_round_trip.specs.AlikeData.{float64_alike};
ghost use Rattle.rmp_round_trip.specs.LeafRounds.{float64_other};
ghost use Rattle.rmp_types.specs.Floats.{IsFloat, not_float};
ghost use Rattle.rmp_types.specs.FloatHeads.{IsFloatHead, NoFloatHead};
ghost use Rattle.rmp_types.specs.FloatRounds.{float_inside, float_only, float_row};

mod bits;

use bits::{whole_bits, widened};
use rmp_decode::{Deserialize, Deserializer, Error, Text};
use rmp_encode::{Serialize, Serializer};
use rmp_ends::EndsInside;
use rmp_round_trip::{NeverNil, RoundTrip};
use rmp_wire::config::SerializerConfig;
use rmp_wire::{Head, ReadSlice, Sink};
use std::num::{f64_from_bits_with_nan, f64_to_bits_with_nan};

/// A double, which is read from a float of 64 or 32 bits, or from a whole number that a double holds exactly.
///
/// Encoders of JavaScript, Lua and PHP write 1.0 as the whole number 1, and 0.5 as a float of 32 bits. `F64Bits` reads neither. A
/// `Float64` is written as a float of 64 bits.
///
/// A NaN keeps its sign and its payload, and -0.0 is no 0.0: two values are equal where their bits are.
///
/// # Examples
/// ```
/// use rmp_serde::{Float64, from_slice, to_vec};
///
/// // 1, 0.5 as a float of 32 bits, and 0.1
/// let input = [0x93, 0x01, 0xca, 0x3f, 0x00, 0x00, 0x00, 0xcb, 0x3f, 0xb9, 0x99, 0x99, 0x99, 0x99, 0x99, 0x9a];
/// let (one, half, tenth): (Float64, Float64, Float64) = from_slice(alloc, &input)?;
/// assert_eq!(rt; one.to_f64(), 1.0);
/// assert_eq!(rt; half.to_f64(), 0.5);
/// assert_eq!(rt; tenth.to_f64(), 0.1);
/// let bytes = to_vec(alloc, &Float64::from_f64(1.0))?;
/// assert_eq!(rt; bytes.as_slice(), b"\xcb\x3f\xf0\x00\x00\x00\x00\x00\x00".as_slice());
/// ```
#[derive(Clone, Copy, Debug, PartialEq, Eq)]
pub struct Float64 {
    /// The bits, as `f64::to_bits` returns them.
    pub bits: u64,
}

impl Float64 {
    /// Makes it of an `f64`. Each NaN becomes the one of the bits 7ff8000000000000.
    pub fn from_f64(value: f64) -> Float64
        ensures { result.bits ≡ to_bits binary64 value }
    {
        Float64 {
            bits: f64_to_bits_with_nan(value),
        }
    }

    /// Returns the `f64`. Of a NaN nothing but that it is one is kept.
    pub fn to_f64(self) -> f64
        ensures { result ≡ from_bits binary64 self.bits }
    {
        f64_from_bits_with_nan(self.bits)
    }

    /// Makes it of the head of a message that is a float or a whole number, and so has nothing after its head.
    ///
    /// # Errors
    /// `Syntax(InvalidValue)` for a whole number that no double holds exactly, and `Syntax(InvalidType)` for any other kind.
    pub fn from_head(head: Head) -> Result<Float64, Error>
        ensures ok { IfOk result (λ v. IsFloatHead head v.bits) }
        ensures err { IfErr result (NoFloatHead head) }
    {
        match head {
            Head::F64Bits(bits) => Ok(Float64 { bits }),
            Head::F32Bits(bits) => Ok(Float64 {
                bits: widened(bits),
            }),
            Head::Whole(number) => match whole_bits(number) {
                Some(bits) => Ok(Float64 { bits }),
                None => Err(Error::Syntax(Text::InvalidValue)),
            },
            _ => Err(Error::Syntax(Text::InvalidType)),
        }
    }
}

impl Serialize for Float64 {
    ghost data_of = { λ v _. Some (float64 v.bits) };

    ghost is_value = { λ v. v.bits < 2 ^ 64 };

    ghost takes_memory = { λ _. false };

    ghost refuses = { λ _. OfSink };

    ghost marks = { λ _ _. AtItem };

    #[inline(always)]
    fn serialize<W: Sink, C: SerializerConfig>(
        &self,
        se: &mut Serializer<W, C>,
    ) -> Result<(), rmp_encode::Error> {
        se.serialize_f64_bits(self.bits)
    }

    #[inline(always)]
    fn as_u8(&self, _human: bool) -> Option<u8> {
        None
    }
}

impl<'de, R: ReadSlice<'de>> Deserialize<'de, R> for Float64 {
    ghost reads = { λ human lends m v. IsFloat m v.bits };

    ghost absent = { None };

    ghost refuses = { λ s. RefusesExactly s.strict not_float };

    ghost takes_memory = { λ _. false };

    fn deserialize<C: SerializerConfig>(de: &mut Deserializer<R, C>) -> Result<Float64, Error> {
        let head = match de.deserialize_head() {
            Ok(head) => head,
            Err(e) => return Err(e),
        };
        match Float64::from_head(head) {
            Ok(float) => Ok(float),
            Err(e) => Err(de.refuse(e)),
        }
    }

    fn missing() -> Option<Float64> {
        None
    }
}

impl<'de, R: ReadSlice<'de>> RoundTrip<'de, R> for Float64 {
    ghost has_data = { λ human v. refl };

    ghost round = { λ lent s v fits. float_row s v.bits };

    ghost same = { λ v w. v.bits ≡ w.bits };

    ghost alike = { λ human v w h. float64_alike v.bits w.bits h };

    ghost only = { λ s v fits. float_only s v.bits };
}

impl NeverNil for Float64 {
    ghost never_nil = { λ s v. float64_other s v.bits };
}

impl<'de, R: ReadSlice<'de>> EndsInside<'de, R> for Float64 {
    ghost ends_inside = { float_inside };
}
