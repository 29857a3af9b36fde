//! The items of a slice or a `Vec`, which may be written as bytes, depending on the mode.
ghost use Rattle.std.specs.Prelude.{◌≡◌, ◌^◌, ◌≤◌, ◌||◌, map, take, All, Some, true, false, length};
ghost use Rattle.rmp_wire.specs.Msg.{bin};
ghost use Rattle.rmp_encode.specs.Promises.{WritesValue};
ghost use Rattle.rmp_encode.specs.Refusals.{OfItems, OfLength};
ghost use Rattle.rmp_encode.specs.Ser.{settings_of};
ghost use Rattle.rmp_encode.specs.Slices.{number_of, OneIsNone, AllBytes};
ghost use Rattle.rmp_encode.specs.Trees.{tree_of, sequence_of, slice_of, forces_slices};

use crate::error::Error;
use crate::length::fits_u32;
use crate::ser::Serialize;
use crate::serializer::Serializer;
use rmp_wire::Sink;
use rmp_wire::config::{BytesMode, SerializerConfig};

// How many bytes are written at a time.
const PIECE: usize = 64;

// At most this many bytes are written one by one: to gather them first would take longer.
const SHORT: usize = 8;

// Whether each value is a `u8`.
#[inline(always)]
pub(crate) fn are_bytes<T: Serialize>(values: &[T], human: bool) -> bool
    ensures bytes { result ≡ true → AllBytes (map (λ x. T.data_of x human) values.now) }
    ensures values { result ≡ true → All T.is_value values.now }
    ensures none { result ≡ false → OneIsNone (map (λ x. T.data_of x human) values.now) }
{
    for value in values {
        let Some(_number) = value.as_u8(human) else {
            return false;
        };
    }
    true
}

// Copies the numbers of these values to the front of a piece, which must have room for them.
#[inline(always)]
fn fill<T: Serialize>(piece: &mut [u8], values: &[T], human: bool)
    requires { length values.now ≤ length piece.old }
    ensures front { take (length values.now) piece.new ≡ map number_of (map (λ x. T.data_of x human) values.now) }
{
    for i in 0..values.len() {
        piece[i] = values[i].as_u8(human).unwrap_or(0);
    }
}

impl<W: Sink, C: SerializerConfig> Serializer<W, C> {
    fn forces_slices(&self) -> bool
        ensures { result ≡ forces_slices (settings_of self.now).bytes }
    {
        match self.bytes() {
            BytesMode::Normal => false,
            BytesMode::ForceAll | BytesMode::ForceIterables => true,
        }
    }

    // Whether the mode turns these values into bytes.
    #[inline(always)]
    pub(crate) fn packs_slice<T: Serialize>(&self, values: &[T]) -> bool
        ensures bytes { result ≡ true → AllBytes (map (λ x. T.data_of x (settings_of self.now).human) values.now) }
        ensures packed { result ≡ true → tree_of (settings_of self.now) (slice_of (map (λ x. T.data_of x (settings_of self.now).human) values.now))
            ≡ Some (bin (map number_of (map (λ x. T.data_of x (settings_of self.now).human) values.now))) }
        ensures values { result ≡ true → All T.is_value values.now }
        ensures listed { result ≡ false → tree_of (settings_of self.now) (slice_of (map (λ x. T.data_of x (settings_of self.now).human) values.now))
            ≡ tree_of (settings_of self.now) (sequence_of (map (λ x. T.data_of x (settings_of self.now).human) values.now)) }
    {
        if !self.forces_slices() {
            return false;
        }
        if values.is_empty() {
            return false;
        }
        are_bytes(values, self.is_human_readable())
    }

    // Writes values that are all `u8` as bytes.
    pub(crate) fn put_packed<T: Serialize>(&mut self, values: &[T]) -> Result<(), Error>
        requires { AllBytes (map (λ x. T.data_of x (settings_of self.old).human) values.now) }
        ensures { WritesValue W.Sink W.takes_memory (Some (bin (map number_of (map (λ x. T.data_of x (settings_of self.old).human) values.now))))
            (length values.now) (OfLength (2 ^ 32 ≤ length values.now)) (Unit {0}) self.old self.new result }
    {
        if values.len() <= SHORT {
            return self.put_short(values);
        }
        self.put_pieces(values)
    }

    // Writes values that are all `u8` as bytes, a value at a time.
    fn put_short<T: Serialize>(&mut self, values: &[T]) -> Result<(), Error>
        requires { AllBytes (map (λ x. T.data_of x (settings_of self.old).human) values.now) }
        ensures { WritesValue W.Sink W.takes_memory (Some (bin (map number_of (map (λ x. T.data_of x (settings_of self.old).human) values.now))))
            (length values.now) (OfLength (2 ^ 32 ≤ length values.now)) (Unit {0}) self.old self.new result }
    {
        let human = self.is_human_readable();
        let len = fits_u32(values.len())?;
        self.put_bin_head(len)?;
        for value in values {
            let number = value.as_u8(human).unwrap_or(0);
            self.put(&[number])?;
        }
        Ok(())
    }

    // Writes values that are all `u8` as bytes, a piece at a time.
    fn put_pieces<T: Serialize>(&mut self, values: &[T]) -> Result<(), Error>
        requires { AllBytes (map (λ x. T.data_of x (settings_of self.old).human) values.now) }
        ensures { WritesValue W.Sink W.takes_memory (Some (bin (map number_of (map (λ x. T.data_of x (settings_of self.old).human) values.now))))
            (length values.now) (OfLength (2 ^ 32 ≤ length values.now)) (Unit {0}) self.old self.new result }
    {
        let human = self.is_human_readable();
        let len = fits_u32(values.len())?;
        self.put_bin_head(len)?;
        let mut piece = [0; PIECE];
        for chunk in values.chunks(PIECE) {
            fill(&mut piece, chunk, human);
            self.put(&piece[..chunk.len()])?;
        }
        Ok(())
    }

    // Writes a list of values, never as bytes. 2 ^ 32 values or more are refused, and nothing is written.
    pub(crate) fn put_list<T: Serialize>(&mut self, values: &[T]) -> Result<(), Error>
        ensures { WritesValue W.Sink (T.takes_memory (settings_of self.old) || W.takes_memory)
            (tree_of (settings_of self.old) (sequence_of (map (λ x. T.data_of x (settings_of self.old).human) values.now))) (length values.now)
            (OfItems T.refuses values.now) (All T.is_value values.now) self.old self.new result }
    {
        self.put_len(false, values.len())?;
        for value in values {
            value.serialize(self)?;
        }
        Ok(())
    }
}
