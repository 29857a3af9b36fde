//! Tuples, whose elements may be written as bytes, depending on the mode.
ghost use Rattle.std.specs.Prelude.{◌≡◌, ◌^◌, ◌+◌, ◌<◌, ◌||◌, ◌∷◌, ◌++◌, [], nat_le, map, All, Some, true, false, OnOk, OnErr, IfErr, length};
ghost use Rattle.std.specs.List.{list_any, flat_map};
ghost use Rattle.rmp_wire.specs.Msg.{bin};
ghost use Rattle.rmp_wire.specs.declared.config.BytesMode.TheVariants.{ForceAll};
ghost use Rattle.rmp_encode.specs.Data.{packs_tuple};
ghost use Rattle.rmp_encode.specs.Markers.{value_of, FaultAt, InOrder};
ghost use Rattle.rmp_encode.specs.Going.{Ends, EndsBySink, Goes};
ghost use Rattle.rmp_encode.specs.Promises.{WritesItems, WritesValue};
ghost use Rattle.rmp_encode.specs.Refusals.{OfItems, OfParts};
ghost use Rattle.rmp_encode.specs.Ser.{sink_of, settings_of};
ghost use Rattle.rmp_encode.specs.Slices.{number_of, AllBytes};
ghost use Rattle.rmp_encode.specs.Trees.{tree_of, sequence_of, tuple_of, forces_all, number_head};
ghost use Rattle.rmp_encode.specs.Tuples.{inside, reference, items_before, items_left, left_of, is_sound, IsTupling};
ghost use Rattle.rmp_encode.specs.Writes.{Keeps, MarkedBy};

use crate::elements::Row;
use crate::error::Error;
use crate::ser::Serialize;
use crate::serializer::Serializer;
use crate::slice::are_bytes;
use rmp_wire::Sink;
use rmp_wire::config::{BytesMode, SerializerConfig};
use std::mem;

/// A tuple that is being written, an element at a time.
///
/// In the mode `ForceAll`, elements that are `u8` are kept until one isn't, or until the end.
///
/// Once a call has returned an error, the tuple is no longer sound: no call may follow, and it can only be
/// dropped.
pub struct Tuple<'a, W, C, P = Option<Vec<u8>>> {
    pub(crate) se: &'a mut Serializer<W, C>,
    // `Some` in the mode `ForceAll`, and `None` otherwise, until `end`: the compiler can test for it once
    pub(crate) kept: P,
    // the elements so far were all `u8`, and are kept
    pub(crate) probing: bool,
    pub(crate) len: u32,
    pub(crate) left: usize,
    // no call has returned an error
    pub(crate) sound: bool,
}

impl<W, C, P: Drop> Drop for Tuple<'_, W, C, P> {
    fn drop(self)
        ensures { self.exit.0.now ≡ inside self.entry }
    {
        let Tuple {
            se: _,
            kept: _,
            probing: _,
            len: _,
            left: _,
            sound: _,
        } = self;
    }
}

// Whether one of these values is a `u8` of 128 or more.
fn any_high<T: Serialize>(values: &[T], human: bool) -> bool
    ensures { result ≡ list_any (nat_le 128) (map number_of (map (λ x. T.data_of x human) values.now)) }
{
    for value in values {
        if value.as_u8(human).unwrap_or(0) >= 128 {
            return true;
        }
    }
    false
}

// Whether a tuple of these values, all `u8`, is written as bytes in the mode `ForceAll`.
#[tactic(auto, unfolding(crate::specs::Data::packs_tuple))]
fn packs<T: Serialize>(values: &[T], human: bool) -> bool
    ensures { result ≡ packs_tuple ForceAll (map number_of (map (λ x. T.data_of x human) values.now)) }
{
    if values.is_empty() {
        return false;
    }
    if values.len() >= 16 {
        return true;
    }
    any_high(values, human)
}

impl<W: Sink, C: SerializerConfig> Serializer<W, C> {
    // Writes each byte as a number.
    pub(crate) fn put_numbers(&mut self, bytes: &[u8]) -> Result<(), Error>
        ensures { WritesItems W.Sink (map number_head bytes.now) (flat_map number_head bytes.now) self.old self.new result }
    {
        for b in bytes {
            self.put_byte(*b)?;
        }
        Ok(())
    }

    pub(crate) fn forces_all(&self) -> bool
        ensures { result ≡ forces_all (settings_of self.now).bytes }
    {
        match self.bytes() {
            BytesMode::ForceAll => true,
            BytesMode::Normal | BytesMode::ForceIterables => false,
        }
    }

    // Whether the mode turns a tuple of these values into bytes.
    #[inline(always)]
    fn packs_tuple<T: Serialize>(&self, values: &[T]) -> bool
        ensures bytes { result ≡ true → AllBytes (map (λ x. T.data_of x (settings_of self.now).human) values.now) }
        ensures packed { result ≡ true → tree_of (settings_of self.now) (tuple_of (map (λ x. T.data_of x (settings_of self.now).human) values.now))
            ≡ Some (bin (map number_of (map (λ x. T.data_of x (settings_of self.now).human) values.now))) }
        ensures values { result ≡ true → All T.is_value values.now }
        ensures listed { result ≡ false → tree_of (settings_of self.now) (tuple_of (map (λ x. T.data_of x (settings_of self.now).human) values.now))
            ≡ tree_of (settings_of self.now) (sequence_of (map (λ x. T.data_of x (settings_of self.now).human) values.now)) }
    {
        if !self.forces_all() {
            return false;
        }
        let human = self.is_human_readable();
        if !are_bytes(values, human) {
            return false;
        }
        packs(values, human)
    }
}

impl<'a, W: Sink, C: SerializerConfig> Tuple<'a, W, C> {
    /// Writes the next element, or keeps it. The caller's conditions: `is_sound`, and `left` isn't 0.
    ///
    /// # Errors
    /// Those of the element's type and of the sink, and `OutOfMemory`. The tuple is no longer sound.
    #[inline(always)]
    pub fn serialize_element<T: Serialize>(&mut self, value: &T) -> Result<(), Error>
        requires sound { is_sound self.old ≡ true }
        requires room { 0 < left_of self.old }
        ensures same_reference { reference self.new ≡ reference self.old }
        ensures left { left_of self.new + 1 ≡ left_of self.old }
        ensures sound { OnOk result (is_sound self.new ≡ true) }
        ensures broken { OnErr result (is_sound self.new ≡ false) }
        ensures marker { MarkedBy W.Sink (FaultAt (items_before self.old ++ value_of (settings_of (inside self.old))
            (T.data_of value.now (settings_of (inside self.old)).human) (T.marks value.now (settings_of (inside self.old))) ∷ []))
            (sink_of (inside self.old)) (sink_of (inside self.new)) result }
        ensures error { IfErr result (OfParts ⊥ (T.refuses value.now ∷ [])) }
        ensures writes { Goes W.Sink (IsTupling W.Sink) inside (λ s. (forces_all s.bytes || T.takes_memory s) || W.takes_memory)
            (λ s. T.data_of value.now s.human ∷ []) self.old self.new result }
        ensures keeps { Keeps W.Sink (inside self.old) (inside self.new) }
        ensures value { OnOk result (T.is_value value.now) }
    {
        match self.put_element(value) {
            Ok(()) => Ok(()),
            Err(e) => {
                self.sound = false;
                Err(e)
            }
        }
    }

    // Writes the next element, or keeps it, without marking the tuple after an error.
    //
    // The kept elements are moved out of the tuple while they grow, so that no reference into the tuple is
    // passed on.
    #[inline(always)]
    fn put_element<T: Serialize>(&mut self, value: &T) -> Result<(), Error>
        requires { 0 < left_of self.old }
        ensures same_reference { reference self.new ≡ reference self.old }
        ensures left { left_of self.new + 1 ≡ left_of self.old }
        ensures sound { is_sound self.new ≡ is_sound self.old }
        ensures marker { MarkedBy W.Sink (FaultAt (items_before self.old ++ value_of (settings_of (inside self.old))
            (T.data_of value.now (settings_of (inside self.old)).human) (T.marks value.now (settings_of (inside self.old))) ∷ []))
            (sink_of (inside self.old)) (sink_of (inside self.new)) result }
        ensures error { IfErr result (OfParts ⊥ (T.refuses value.now ∷ [])) }
        ensures writes { Goes W.Sink (IsTupling W.Sink) inside (λ s. (forces_all s.bytes || T.takes_memory s) || W.takes_memory)
            (λ s. T.data_of value.now s.human ∷ []) self.old self.new result }
        ensures keeps { Keeps W.Sink (inside self.old) (inside self.new) }
        ensures value { OnOk result (T.is_value value.now) }
    {
        self.left -= 1;
        let Some(kept) = &mut self.kept else {
            return value.serialize(&mut *self.se);
        };
        if !self.probing {
            return value.serialize(&mut *self.se);
        }
        if let Some(b) = value.as_u8(self.se.is_human_readable()) {
            let empty = self.se.empty();
            let mut bytes = mem::replace(kept, empty);
            let pushed = bytes.push(b);
            *kept = bytes;
            return match pushed {
                Ok(()) => Ok(()),
                Err(_) => Err(Error::OutOfMemory),
            };
        }
        self.se.put_head(false, self.len)?;
        self.se.put_numbers(kept.as_slice())?;
        *kept = self.se.empty();
        self.probing = false;
        value.serialize(&mut *self.se)
    }

    /// Returns how many elements remain.
    pub fn left(&self) -> usize
        ensures { result ≡ left_of self.now }
    {
        self.left
    }

    /// Returns whether no call has returned an error.
    pub fn is_sound(&self) -> bool
        ensures { result ≡ is_sound self.now }
    {
        self.sound
    }

    /// Ends the tuple, and writes the kept elements. The caller's conditions: `is_sound`, and `left` is 0.
    ///
    /// # Errors
    /// Those of the sink. What is written is one item: `InvalidMarkerWrite` where no byte of it was written,
    /// `InvalidDataWrite` where some were. Nothing can fail where no elements are kept.
    #[inline(always)]
    pub fn end(self) -> Result<(), Error>
        requires sound { is_sound self ≡ true }
        requires whole { left_of self ≡ 0 }
        ensures writes { Ends W.Sink (IsTupling W.Sink) self.entry (sink_of self.exit.0.now) result }
        ensures error { EndsBySink W.Sink (IsTupling W.Sink) self.entry result }
        ensures marker { InOrder W.Sink (items_left self.entry) (sink_of (inside self.entry)) (sink_of self.exit.0.now) result }
        ensures keeps { Keeps W.Sink (inside self.entry) self.exit.0.now }
    {
        let Tuple {
            se,
            kept,
            probing,
            len,
            left: _,
            sound: _,
        } = self;
        let Some(bytes) = kept else {
            return Ok(());
        };
        if !probing {
            return Ok(());
        }
        if packs(bytes.as_slice(), false) {
            return se.serialize_bytes(bytes.as_slice());
        }
        // each number is below 128, so it is its own encoding
        se.put_head(false, len)?;
        se.put_kept(bytes.as_slice())
    }
}

// Writes a tuple of values of one type. 2 ^ 32 values or more are refused, and nothing is written.
pub(crate) fn put_tuple<W: Sink, C: SerializerConfig, T: Serialize>(
    se: &mut Serializer<W, C>,
    values: &[T],
) -> Result<(), Error>
    ensures { WritesValue W.Sink ((forces_all (settings_of se.old).bytes || T.takes_memory (settings_of se.old)) || W.takes_memory)
        (tree_of (settings_of se.old) (tuple_of (map (λ x. T.data_of x (settings_of se.old).human) values.now))) (length values.now)
        (OfItems T.refuses values.now) (All T.is_value values.now) se.old se.new result }
{
    if se.packs_tuple(values) {
        return se.put_packed(values);
    }
    se.put_list(values)
}

// Writes a tuple of these elements, of which there are `len`.
#[inline(always)]
pub(crate) fn put_row<W: Sink, C: SerializerConfig, R: Row>(
    se: &mut Serializer<W, C>,
    len: usize,
    row: &R,
) -> Result<(), Error>
    requires whole { len ≡ R.count }
    requires small { len < 2 ^ 32 }
    ensures { WritesValue W.Sink ((forces_all (settings_of se.old).bytes || R.takes_memory (settings_of se.old)) || W.takes_memory)
        (tree_of (settings_of se.old) (tuple_of (R.parts_of row.now (settings_of se.old).human))) len (OfParts ⊥ (R.refusals row.now))
        (R.are_values row.now) se.old se.new result }
{
    let mut tup = se.serialize_tuple(len)?;
    row.add_to(&mut tup)?;
    tup.end()
}
