//! Lists and maps, of a known length, or of an unknown one, whose elements are buffered until the end.
ghost use Rattle.std.specs.Prelude.{◌≡◌, ◌+◌, ◌≤◌, ◌<◌, ◌^◌, ◌||◌, ◌∷◌, [], true, false, OnOk, OnErr, IfErr};
ghost use Rattle.rmp_encode.specs.Going.{Ends, EndsBySink, Goes};
ghost use Rattle.rmp_encode.specs.Refusals.{OfParts, RefusesLength};
ghost use Rattle.rmp_encode.specs.Ser.{sink_of, settings_of};
ghost use Rattle.rmp_encode.specs.Sizes.{most, size_at};
ghost use Rattle.rmp_encode.specs.Writes.{Keeps, MarkedBy, NoneAtMarker};

use crate::error::Error;
use crate::length::too_long;
use crate::ser::Serialize;
use crate::serializer::Serializer;
use rmp_wire::Sink;
use rmp_wire::config::SerializerConfig;
use std::mem;

/// A list or a map that is being written: an element at a time, or a key and its value.
///
/// With a known length, each element is written at once. With an unknown one, the elements are written to a
/// buffer, and `end` writes the head and the buffer.
///
/// Once a call has returned an error, the list or map is no longer sound: no call may follow, and it can only
/// be dropped.
pub struct MaybeUnknownLengthCompound<'a, W, C, P = Option<Serializer<Vec<u8>, C>>> {
    pub(crate) se: &'a mut Serializer<W, C>,
    pub(crate) buffer: P,
    // without a buffer: the elements, or keys and values, that remain; with one: those in the buffer
    pub(crate) count: u64,
    // a map is open, whose keys and values take turns
    pub(crate) pairs: bool,
    // no call has returned an error
    pub(crate) sound: bool,
}

impl<W, C, P: Drop> Drop for MaybeUnknownLengthCompound<'_, W, C, P> {
    ghost use Rattle.rmp_encode.specs.Opens.{inside};

    fn drop(self)
        ensures { self.exit.0.now ≡ inside self.entry }
    {
        let MaybeUnknownLengthCompound {
            se: _,
            buffer: _,
            count: _,
            pairs: _,
            sound: _,
        } = self;
    }
}

// The most elements, or keys and values, that a head can count.
fn most(pairs: bool) -> u64
    ensures value { result ≡ most pairs }
    ensures small { result < 2 ^ 34 }
{
    if pairs { (1 << 33) - 1 } else { (1 << 32) - 1 }
}

// How many elements or pairs these parts are.
fn whole(pairs: bool, parts: u64) -> u64
    ensures { result ≡ size_at pairs parts }
{
    if pairs { parts / 2 } else { parts }
}

// The number that the head of a list or map with these parts states.
fn size(pairs: bool, count: u64) -> u32
    requires { count ≤ most pairs }
    ensures { result ≡ size_at pairs count }
{
    if pairs {
        return (count / 2) as u32;
    }
    count as u32
}

impl<'a, W: Sink, C: SerializerConfig> MaybeUnknownLengthCompound<'a, W, C> {
    ghost use Rattle.rmp_encode.specs.Opens.{inside, reference, counted, left_of, not_begun, is_kept, is_map, is_sound};
    ghost use Rattle.rmp_encode.specs.Opens.{owed, owed_at, one_less, part_marks, IsFull, IsOpen, MayTake, MayEnd, Stays};

    // Writes an element, or a key or a value, to the sink or to the buffer.
    //
    // The buffer is moved out of the compound while it is written to. So no reference into the compound is passed on,
    // and a compound without a buffer can stay in registers.
    #[inline(always)]
    fn put_part<T: Serialize>(&mut self, value: &T) -> Result<(), Error>
        requires sound { is_sound self.old ≡ true }
        requires room { MayTake (left_of self.old) }
        ensures sound { OnOk result (is_sound self.new ≡ true) }
        ensures broken { OnErr result (is_sound self.new ≡ false) }
        ensures same_reference { reference self.new ≡ reference self.old }
        ensures left { left_of self.new ≡ one_less (left_of self.old) }
        ensures kind { is_map self.new ≡ is_map self.old }
        ensures turn { OnOk result (owed_at true (counted self.old) + owed_at true (counted self.new) ≡ 1) }
        ensures marker { MarkedBy W.Sink (part_marks (left_of self.old) (T.marks value.now (settings_of (inside self.old))))
            (sink_of (inside self.old)) (sink_of (inside self.new)) result }
        ensures error { IfErr result (OfParts (IsFull self.old) (T.refuses value.now ∷ [])) }
        ensures long { IsFull self.old → RefusesLength (inside self.old) (inside self.new) result }
        ensures writes { Goes W.Sink (IsOpen W.Sink) inside (λ s. is_kept (left_of self.old) || (T.takes_memory s || W.takes_memory))
            (λ s. T.data_of value.now s.human ∷ []) self.old self.new result }
        ensures stays { Stays (left_of self.old) (inside self.old) (inside self.new) }
        ensures keeps { Keeps W.Sink (inside self.old) (inside self.new) }
        ensures value { OnOk result (T.is_value value.now) }
    {
        match &mut self.buffer {
            None => {
                self.count -= 1;
                match value.serialize(&mut *self.se) {
                    Ok(()) => Ok(()),
                    Err(e) => {
                        self.sound = false;
                        Err(e)
                    }
                }
            }
            Some(buffer) => {
                let full = self.count >= most(self.pairs);
                if full {
                    self.sound = false;
                    return Err(too_long());
                }
                let empty = self.se.over(self.se.empty());
                let mut kept = mem::replace(buffer, empty);
                let result = value.serialize(&mut kept);
                *buffer = kept;
                match result {
                    Ok(()) => {
                        self.count += 1;
                        Ok(())
                    }
                    Err(e) => {
                        self.sound = false;
                        Err(e)
                    }
                }
            }
        }
    }

    /// Writes the next element of a list, to the sink or to the buffer. The caller's conditions: it is a list,
    /// `is_sound`, and `left` isn't `Some(0)`.
    ///
    /// # Errors
    /// Those of the element's type and of the sink, and `InvalidDataModel` at element 2 ^ 32 of an unknown
    /// number. The list is no longer sound.
    #[inline(always)]
    pub fn serialize_element<T: Serialize>(&mut self, value: &T) -> Result<(), Error>
        requires sound { is_sound self.old ≡ true }
        requires kind { is_map self.old ≡ false }
        requires room { MayTake (left_of self.old) }
        ensures same_reference { reference self.new ≡ reference self.old }
        ensures sound { OnOk result (is_sound self.new ≡ true) }
        ensures broken { OnErr result (is_sound self.new ≡ false) }
        ensures kind { is_map self.new ≡ false }
        ensures owed { owed self.new ≡ 0 }
        ensures left { left_of self.new ≡ one_less (left_of self.old) }
        ensures marker { MarkedBy W.Sink (part_marks (left_of self.old) (T.marks value.now (settings_of (inside self.old))))
            (sink_of (inside self.old)) (sink_of (inside self.new)) result }
        ensures error { IfErr result (OfParts (IsFull self.old) (T.refuses value.now ∷ [])) }
        ensures long { IsFull self.old → RefusesLength (inside self.old) (inside self.new) result }
        ensures writes { Goes W.Sink (IsOpen W.Sink) inside (λ s. is_kept (left_of self.old) || (T.takes_memory s || W.takes_memory))
            (λ s. T.data_of value.now s.human ∷ []) self.old self.new result }
        ensures stays { Stays (left_of self.old) (inside self.old) (inside self.new) }
        ensures keeps { Keeps W.Sink (inside self.old) (inside self.new) }
        ensures value { OnOk result (T.is_value value.now) }
    {
        self.put_part(value)
    }

    /// Writes the next key of a map, to the sink or to the buffer; its value must follow. The caller's
    /// conditions: it is a map whose last value was written, `is_sound`, and `left` isn't `Some(0)`.
    ///
    /// # Errors
    /// As for `serialize_element`. The map is no longer sound.
    #[inline(always)]
    pub fn serialize_key<T: Serialize>(&mut self, key: &T) -> Result<(), Error>
        requires sound { is_sound self.old ≡ true }
        requires kind { is_map self.old ≡ true }
        requires turn { owed self.old ≡ 0 }
        requires room { MayTake (left_of self.old) }
        ensures same_reference { reference self.new ≡ reference self.old }
        ensures sound { OnOk result (is_sound self.new ≡ true) }
        ensures broken { OnErr result (is_sound self.new ≡ false) }
        ensures kind { is_map self.new ≡ true }
        ensures owed { OnOk result (owed self.new ≡ 1) }
        ensures left { left_of self.new ≡ one_less (left_of self.old) }
        ensures marker { MarkedBy W.Sink (part_marks (left_of self.old) (T.marks key.now (settings_of (inside self.old))))
            (sink_of (inside self.old)) (sink_of (inside self.new)) result }
        ensures error { IfErr result (OfParts (IsFull self.old) (T.refuses key.now ∷ [])) }
        ensures long { IsFull self.old → RefusesLength (inside self.old) (inside self.new) result }
        ensures writes { Goes W.Sink (IsOpen W.Sink) inside (λ s. is_kept (left_of self.old) || (T.takes_memory s || W.takes_memory))
            (λ s. T.data_of key.now s.human ∷ []) self.old self.new result }
        ensures stays { Stays (left_of self.old) (inside self.old) (inside self.new) }
        ensures keeps { Keeps W.Sink (inside self.old) (inside self.new) }
        ensures value { OnOk result (T.is_value key.now) }
    {
        self.put_part(key)
    }

    /// Writes the value of the last key, to the sink or to the buffer. The caller's conditions: a key was
    /// written but not its value, and `is_sound`.
    ///
    /// # Errors
    /// As for `serialize_element`. The map is no longer sound.
    #[inline(always)]
    pub fn serialize_value<T: Serialize>(&mut self, value: &T) -> Result<(), Error>
        requires sound { is_sound self.old ≡ true }
        requires kind { is_map self.old ≡ true }
        requires turn { owed self.old ≡ 1 }
        ensures same_reference { reference self.new ≡ reference self.old }
        ensures sound { OnOk result (is_sound self.new ≡ true) }
        ensures broken { OnErr result (is_sound self.new ≡ false) }
        ensures kind { is_map self.new ≡ true }
        ensures owed { OnOk result (owed self.new ≡ 0) }
        ensures left { left_of self.new ≡ one_less (left_of self.old) }
        ensures marker { MarkedBy W.Sink (part_marks (left_of self.old) (T.marks value.now (settings_of (inside self.old))))
            (sink_of (inside self.old)) (sink_of (inside self.new)) result }
        ensures error { IfErr result (OfParts (IsFull self.old) (T.refuses value.now ∷ [])) }
        ensures long { IsFull self.old → RefusesLength (inside self.old) (inside self.new) result }
        ensures writes { Goes W.Sink (IsOpen W.Sink) inside (λ s. is_kept (left_of self.old) || (T.takes_memory s || W.takes_memory))
            (λ s. T.data_of value.now s.human ∷ []) self.old self.new result }
        ensures stays { Stays (left_of self.old) (inside self.old) (inside self.new) }
        ensures keeps { Keeps W.Sink (inside self.old) (inside self.new) }
        ensures value { OnOk result (T.is_value value.now) }
    {
        self.put_part(value)
    }

    /// Returns how many elements or pairs remain, if their number was known at the opening.
    pub fn left(&self) -> Option<usize>
        ensures { result ≡ not_begun self.now }
    {
        match &self.buffer {
            None => Some(whole(self.pairs, self.count) as usize),
            Some(_) => None,
        }
    }

    /// Returns whether no call has returned an error.
    pub fn is_sound(&self) -> bool
        ensures { result ≡ is_sound self.now }
    {
        self.sound
    }

    /// Ends the list or map, and writes the head and the buffer if the length was unknown. The caller's
    /// conditions: `is_sound`, the last key has its value, and `left` isn't `Some` of a number above 0.
    ///
    /// # Errors
    /// Those of the sink. Head and buffer are one item: `InvalidMarkerWrite` where no byte of them was written,
    /// `InvalidDataWrite` where some were.
    #[inline(always)]
    pub fn end(self) -> Result<(), Error>
        requires sound { is_sound self ≡ true }
        requires turn { owed self ≡ 0 }
        requires whole { MayEnd (left_of self) }
        ensures writes { Ends W.Sink (IsOpen W.Sink) self.entry (sink_of self.exit.0.now) result }
        ensures error { EndsBySink W.Sink (IsOpen W.Sink) self.entry result }
        ensures marker { NoneAtMarker W.Sink (sink_of (inside self.entry)) (sink_of self.exit.0.now) result }
        ensures keeps { Keeps W.Sink (inside self.entry) self.exit.0.now }
    {
        let MaybeUnknownLengthCompound {
            se,
            buffer,
            count,
            pairs,
            sound: _,
        } = self;
        let Some(buffer) = buffer else {
            return Ok(());
        };
        let past = count > most(pairs);
        if past {
            return Err(too_long());
        }
        let n = size(pairs, count);
        se.put_head(pairs, n)?;
        let bytes = buffer.into_inner();
        se.put(bytes.as_slice())
    }
}
