//! Elements of several types that one call writes: a tuple struct, a struct, or the content of a variant.
//!
//! The type's own `serialize` is then one call, whose contract is the type's law. An element of a type that
//! borrows, such as `&str`, goes through a function with a type parameter for each element: the checker doesn't
//! cover a call with several lifetimes in a type argument.
ghost use Rattle.std.specs.Prelude.{◌≡◌, ◌^◌, ◌≤◌, ◌||◌, ℕ, Bool, List, Option, OnOk, IfErr, length, ◌∷◌, ◌++◌, true, false, []};
ghost use Rattle.std.specs.List.{flat_map};
ghost use Rattle.rmp_encode.specs.declared.settings.Settings.{Settings};
ghost use Rattle.rmp_encode.specs.Data.{Data};
ghost use Rattle.rmp_encode.specs.Going.{head_at, Goes, IsWriting};
ghost use Rattle.rmp_encode.specs.Markers.{items_of, pieces_by, EndsAtLong, InOrder, Piece};
ghost use Rattle.rmp_encode.specs.Refusals.{lengths, AnyLong, Errors, OfParts, RefusesLength};
ghost use Rattle.rmp_encode.specs.Ser.{sink_of, settings_of};
ghost use Rattle.rmp_encode.specs.Trees.{tree_of, field_parts, fields_by, sequence_of, structure_of, tuple_variant_of, struct_variant_of, variant_items};
ghost use Rattle.rmp_encode.specs.Writes.{Keeps, WritesTree};

use crate::error::Error;
use crate::serializer::Serializer;
use rmp_wire::Sink;
use rmp_wire::config::SerializerConfig;

mod kinds;
mod rows;

pub use kinds::{Both, Eight, Five, Four, One, Seven, Six, Three};
pub(crate) use rows::Row;

/// Elements in order, of several types: `One`, `Both`, and `Three` to `Eight` implement it.
pub trait Elements {
    // How many there are.
    ghost count: { ℕ };

    // What they are for a serializer that writes for humans, or one that doesn't.
    ghost parts_of: { Self → Bool → List (Option Data) };

    // What is known of them.
    ghost are_values: { Self → Type 0 };

    // What is known of the error that writing each of them answers.
    ghost refusals: { Self → List Errors };

    // Whether writing them may allocate under these settings, apart from what the sink allocates.
    ghost takes_memory: { Settings → Bool };

    // What is written of each of them, under these settings.
    ghost pieces: { Self → Settings → List Piece };

    ghost counted: { (v : Self) (human : Bool) → length (parts_of v human) ≡ count };

    /// Returns how many there are.
    fn len(&self) -> usize
        ensures { result ≡ count };

    /// Writes them in order.
    ///
    /// # Errors
    /// Those of an element's type and of the sink.
    fn write<W: Sink, C: SerializerConfig>(&self, se: &mut Serializer<W, C>) -> Result<(), Error>
        ensures writes { Goes W.Sink (IsWriting W.Sink) (λ n. n) (λ s. takes_memory s || W.takes_memory) (λ s. parts_of self.now s.human) se.old se.new result }
        ensures keeps { Keeps W.Sink se.old se.new }
        ensures marker { InOrder W.Sink (pieces self.now (settings_of se.old)) (sink_of se.old) (sink_of se.new) result }
        ensures error { IfErr result (OfParts ⊥ (refusals self.now)) }
        ensures value { OnOk result (are_values self.now) };

    /// Writes them in order, each after its name where structs are written with names. The caller's condition:
    /// there are as many names as values.
    ///
    /// # Errors
    /// As for `serialize_fields`.
    fn write_fields<W: Sink, C: SerializerConfig>(
        &self,
        names: &[&'static str],
        se: &mut Serializer<W, C>,
    ) -> Result<(), Error>
        requires { length names.now ≡ count }
        ensures writes { Goes W.Sink (IsWriting W.Sink) (λ n. n) (λ s. takes_memory s || W.takes_memory)
            (λ s. flat_map (field_parts s.named) (fields_by names.now (parts_of self.now s.human))) se.old se.new result }
        ensures keeps { Keeps W.Sink se.old se.new }
        ensures marker { InOrder W.Sink (pieces_by (settings_of se.old).named names.now (pieces self.now (settings_of se.old)))
            (sink_of se.old) (sink_of se.new) result }
        ensures error { IfErr result (OfParts (AnyLong (lengths names.now)) (refusals self.now)) }
        ensures value { OnOk result (are_values self.now) };
}

impl<W: Sink, C: SerializerConfig> Serializer<W, C> {
    /// Writes a tuple struct of these elements, as a list.
    ///
    /// # Errors
    ///
    /// Those of an element's type and of the sink.
    #[inline(always)]
    pub fn serialize_elements<E: Elements>(
        &mut self,
        _name: &'static str,
        elements: &E,
    ) -> Result<(), Error>
        ensures writes { WritesTree W.Sink (E.takes_memory (settings_of self.old) || W.takes_memory)
            (tree_of (settings_of self.old) (sequence_of (E.parts_of elements.now (settings_of self.old).human))) (sink_of self.old) (sink_of self.new)
            result }
        ensures keeps { Keeps W.Sink self.old self.new }
        ensures marker { InOrder W.Sink (items_of (head_at false E.count ∷ []) ++ E.pieces elements.now (settings_of self.old))
            (sink_of self.old) (sink_of self.new) result }
        ensures error { IfErr result (OfParts (AnyLong (E.count ∷ [])) (E.refusals elements.now)) }
        ensures long { 2 ^ 32 ≤ E.count → RefusesLength self.old self.new result }
        ensures value { OnOk result (E.are_values elements.now) }
    {
        self.put_len(false, elements.len())?;
        elements.write(self)
    }

    /// Writes a struct with these field names and values: a list of the values, or with names a map. The
    /// caller's condition: there are as many names as values.
    ///
    /// # Errors
    ///
    /// Those of a value's type and of the sink, and `InvalidDataModel` where a name is written and has 2 ^ 32
    /// bytes or more: then what is before this name is written, and nothing of it.
    #[inline(always)]
    pub fn serialize_fields<E: Elements>(
        &mut self,
        _name: &'static str,
        names: &[&'static str],
        elements: &E,
    ) -> Result<(), Error>
        requires { length names.now ≡ E.count }
        ensures writes { WritesTree W.Sink (E.takes_memory (settings_of self.old) || W.takes_memory)
            (tree_of (settings_of self.old) (structure_of (fields_by names.now (E.parts_of elements.now (settings_of self.old).human)))) (sink_of self.old)
            (sink_of self.new) result }
        ensures keeps { Keeps W.Sink self.old self.new }
        ensures marker { InOrder W.Sink (items_of (head_at (settings_of self.old).named E.count ∷ [])
            ++ pieces_by (settings_of self.old).named names.now (E.pieces elements.now (settings_of self.old)))
            (sink_of self.old) (sink_of self.new) result }
        ensures error { IfErr result (OfParts (AnyLong (E.count ∷ lengths names.now)) (E.refusals elements.now)) }
        ensures long { 2 ^ 32 ≤ E.count → RefusesLength self.old self.new result }
        ensures long_name { (settings_of self.old).named ≡ true → EndsAtLong W.Sink (items_of (head_at true E.count ∷ [])) names.now
            (E.pieces elements.now (settings_of self.old)) (sink_of self.old) (sink_of self.new) result }
        ensures value { OnOk result (E.are_values elements.now) }
    {
        self.put_len(self.is_named(), elements.len())?;
        elements.write_fields(names, self)
    }

    /// Writes a variant whose content is like a tuple struct of these elements.
    ///
    /// # Errors
    ///
    /// `InvalidDataModel` where the name has 2 ^ 32 bytes or more, and nothing is written; otherwise those of
    /// an element's type and of the sink.
    #[inline(always)]
    pub fn serialize_tuple_variant_of<E: Elements>(
        &mut self,
        _name: &'static str,
        _index: u32,
        variant: &'static str,
        elements: &E,
    ) -> Result<(), Error>
        ensures writes { WritesTree W.Sink (E.takes_memory (settings_of self.old) || W.takes_memory)
            (tree_of (settings_of self.old) (tuple_variant_of variant.now (E.parts_of elements.now (settings_of self.old).human))) (sink_of self.old)
            (sink_of self.new) result }
        ensures keeps { Keeps W.Sink self.old self.new }
        ensures long { 2 ^ 32 ≤ length variant.now → RefusesLength self.old self.new result }
        ensures long_count { 2 ^ 32 ≤ E.count → RefusesLength self.old self.new result }
        ensures marker { InOrder W.Sink (items_of (variant_items variant.now (head_at false E.count)) ++ E.pieces elements.now (settings_of self.old))
            (sink_of self.old) (sink_of self.new) result }
        ensures error { IfErr result (OfParts (AnyLong (length variant.now ∷ E.count ∷ [])) (E.refusals elements.now)) }
        ensures value { OnOk result (E.are_values elements.now) }
    {
        self.open_variant(variant, false, elements.len())?;
        elements.write(self)
    }

    /// Writes a variant whose content is like a struct with these field names and values. The caller's
    /// condition: there are as many names as values.
    ///
    /// # Errors
    ///
    /// `InvalidDataModel` where the variant's name has 2 ^ 32 bytes or more, and nothing is written, or where a
    /// field's name is written and has as many: then what is before this name is written, and nothing of it.
    /// Otherwise those of a value's type and of the sink.
    #[inline(always)]
    pub fn serialize_struct_variant_of<E: Elements>(
        &mut self,
        _name: &'static str,
        _index: u32,
        variant: &'static str,
        names: &[&'static str],
        elements: &E,
    ) -> Result<(), Error>
        requires { length names.now ≡ E.count }
        ensures writes { WritesTree W.Sink (E.takes_memory (settings_of self.old) || W.takes_memory)
            (tree_of (settings_of self.old) (struct_variant_of variant.now (fields_by names.now (E.parts_of elements.now (settings_of self.old).human))))
            (sink_of self.old) (sink_of self.new) result }
        ensures keeps { Keeps W.Sink self.old self.new }
        ensures long { 2 ^ 32 ≤ length variant.now → RefusesLength self.old self.new result }
        ensures long_count { 2 ^ 32 ≤ E.count → RefusesLength self.old self.new result }
        ensures long_name { (settings_of self.old).named ≡ true → EndsAtLong W.Sink (items_of (variant_items variant.now (head_at true E.count))) names.now
            (E.pieces elements.now (settings_of self.old)) (sink_of self.old) (sink_of self.new) result }
        ensures marker { InOrder W.Sink (items_of (variant_items variant.now (head_at (settings_of self.old).named E.count))
            ++ pieces_by (settings_of self.old).named names.now (E.pieces elements.now (settings_of self.old)))
            (sink_of self.old) (sink_of self.new) result }
        ensures error { IfErr result (OfParts (AnyLong (length variant.now ∷ E.count ∷ lengths names.now)) (E.refusals elements.now)) }
        ensures value { OnOk result (E.are_values elements.now) }
    {
        self.open_variant(variant, self.is_named(), elements.len())?;
        elements.write_fields(names, self)
    }
}
