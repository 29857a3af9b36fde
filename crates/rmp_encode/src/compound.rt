//! Tuple structs and structs, and the content of variants that are like them: their elements or fields are
//! written in order.
ghost use Rattle.std.specs.Prelude.{◌≡◌, ◌^◌, ◌+◌, ◌≤◌, ◌<◌, ◌||◌, ◌∷◌, [], true, false, IfErr, OnOk, OnErr, IsOk, length};
ghost use Rattle.rmp_encode.specs.Compounds.{inside, reference, left_of, has_fields, is_sound, IsFilling};
ghost use Rattle.rmp_encode.specs.Going.{Ends, Goes};
ghost use Rattle.rmp_encode.specs.Markers.{InOrder, field_pieces, value_of};
ghost use Rattle.rmp_encode.specs.Refusals.{OfParts, RefusesLength};
ghost use Rattle.rmp_encode.specs.Ser.{sink_of, settings_of};
ghost use Rattle.rmp_encode.specs.Trees.{field_parts};
ghost use Rattle.rmp_encode.specs.Writes.{Keeps, MarkedBy};

use crate::error::Error;
use crate::ser::Serialize;
use crate::serializer::Serializer;
use rmp_wire::Sink;
use rmp_wire::config::SerializerConfig;

/// A tuple struct, a struct, or the content of a variant that is being written, an element or a field at a
/// time.
///
/// Once a call has returned an error, the compound is no longer sound: no call may follow, and it can only be
/// dropped.
#[derive(Drop)]
pub struct Compound<'a, W, C> {
    pub(crate) se: &'a mut Serializer<W, C>,
    pub(crate) left: usize,
    // a struct is open, and its fields are written
    pub(crate) fields: bool,
    // no call has returned an error
    pub(crate) sound: bool,
}

impl<'a, W: Sink, C: SerializerConfig> Compound<'a, W, C> {
    /// Writes the next element of a tuple struct or a tuple variant. The caller's conditions: it is one of
    /// these, `is_sound`, and `left` isn't 0.
    ///
    /// # Errors
    ///
    /// Those of the element's type and of the sink. The compound is no longer sound.
    #[inline(always)]
    pub fn serialize_element<T: Serialize>(&mut self, value: &T) -> Result<(), Error>
        requires sound { is_sound self.old ≡ true }
        requires kind { has_fields self.old ≡ false }
        requires room { 0 < left_of self.old }
        ensures same_reference { reference self.new ≡ reference self.old }
        ensures left { left_of self.new + 1 ≡ left_of self.old }
        ensures kind { has_fields self.new ≡ has_fields self.old }
        ensures sound { OnOk result (is_sound self.new ≡ true) }
        ensures broken { OnErr result (is_sound self.new ≡ false) }
        ensures marker { MarkedBy W.Sink (T.marks value.now (settings_of (inside self.old))) (sink_of (inside self.old)) (sink_of (inside self.new)) result }
        ensures error { IfErr result (T.refuses value.now) }
        ensures writes { Goes W.Sink (IsFilling W.Sink) inside (λ s. T.takes_memory s || W.takes_memory) (λ s. T.data_of value.now s.human ∷ []) self.old
            self.new result }
        ensures keeps { Keeps W.Sink (inside self.old) (inside self.new) }
        ensures value { OnOk result (T.is_value value.now) }
    {
        self.left -= 1;
        match value.serialize(&mut *self.se) {
            Ok(()) => Ok(()),
            Err(e) => {
                self.sound = false;
                Err(e)
            }
        }
    }

    /// Writes the next field of a struct or a struct variant: its value, and with names its name before it. The
    /// caller's conditions: it is one of these, `is_sound`, and `left` isn't 0.
    ///
    /// # Errors
    ///
    /// Those of the value's type and of the sink, and `InvalidDataModel` where the name is written and has 2 ^
    /// 32 bytes or more. The compound is no longer sound.
    #[inline(always)]
    pub fn serialize_field<T: Serialize>(
        &mut self,
        key: &'static str,
        value: &T,
    ) -> Result<(), Error>
        requires sound { is_sound self.old ≡ true }
        requires kind { has_fields self.old ≡ true }
        requires room { 0 < left_of self.old }
        ensures same_reference { reference self.new ≡ reference self.old }
        ensures left { left_of self.new + 1 ≡ left_of self.old }
        ensures kind { has_fields self.new ≡ has_fields self.old }
        ensures sound { OnOk result (is_sound self.new ≡ true) }
        ensures broken { OnErr result (is_sound self.new ≡ false) }
        ensures marker { InOrder W.Sink (field_pieces (settings_of (inside self.old)).named key.now
            (value_of (settings_of (inside self.old)) (T.data_of value.now (settings_of (inside self.old)).human)
            (T.marks value.now (settings_of (inside self.old))))) (sink_of (inside self.old)) (sink_of (inside self.new)) result }
        ensures error { IfErr result (OfParts (2 ^ 32 ≤ length key.now) (T.refuses value.now ∷ [])) }
        ensures long { (settings_of (inside self.old)).named ≡ true → 2 ^ 32 ≤ length key.now → RefusesLength (inside self.old) (inside self.new) result }
        ensures writes { Goes W.Sink (IsFilling W.Sink) inside (λ s. T.takes_memory s || W.takes_memory)
            (λ s. field_parts s.named (key.now, T.data_of value.now s.human)) self.old self.new result }
        ensures keeps { Keeps W.Sink (inside self.old) (inside self.new) }
        ensures value { OnOk result (T.is_value value.now) }
    {
        self.left -= 1;
        match self.se.put_field(key, value) {
            Ok(()) => Ok(()),
            Err(e) => {
                self.sound = false;
                Err(e)
            }
        }
    }

    /// Returns how many elements or fields remain.
    pub fn left(&self) -> usize
        ensures { result ≡ left_of self.now }
    {
        self.left
    }

    /// Returns whether no call has returned an error.
    pub fn is_sound(&self) -> bool
        ensures { result ≡ is_sound self.now }
    {
        self.sound
    }

    /// Ends the compound, and writes nothing. It never fails. The caller's conditions: `is_sound`, and `left`
    /// is 0.
    pub fn end(self) -> Result<(), Error>
        requires sound { is_sound self ≡ true }
        requires whole { left_of self ≡ 0 }
        ensures ok { IsOk result }
        ensures writes { Ends W.Sink (IsFilling W.Sink) self.entry (sink_of self.exit.0.now) result }
        ensures stays { self.exit.0.now ≡ inside self.entry }
        ensures keeps { Keeps W.Sink (inside self.entry) self.exit.0.now }
    {
        let Compound {
            se: _,
            left: _,
            fields: _,
            sound: _,
        } = self;
        Ok(())
    }
}
