//! An element and then others: what `One` to `Eight` and tuples are written by.
ghost use Rattle.std.specs.Prelude.{◌≡◌, ◌≤◌, ◌||◌, ◌∷◌, length, suc, true};
ghost use Rattle.std.specs.List.{flat_map};
ghost use Rattle.rmp_encode.specs.Markers.{pieces_by, value_of};
ghost use Rattle.rmp_encode.specs.Promises.{TakesElements, WritesParts};
ghost use Rattle.rmp_encode.specs.Refusals.{lengths, AnyLong};
ghost use Rattle.rmp_encode.specs.Trees.{field_parts, fields_by};
ghost use Rattle.rmp_encode.specs.Tuples.{is_sound, left_of};

use crate::elements::Elements;
use crate::error::Error;
use crate::ser::Serialize;
use crate::serializer::Serializer;
use crate::tuple::Tuple;
use rmp_wire::Sink;
use rmp_wire::config::SerializerConfig;

// Writes an element, and then the others.
#[inline(always)]
pub(crate) fn write_then<E: Serialize, R: Elements, W: Sink, C: SerializerConfig>(
    first: &E,
    rest: &R,
    se: &mut Serializer<W, C>,
) -> Result<(), Error>
    ensures { WritesParts W.Sink (λ s. (E.takes_memory s || R.takes_memory s) || W.takes_memory)
        (λ s. E.data_of first.now s.human ∷ R.parts_of rest.now s.human)
        (λ s. value_of s (E.data_of first.now s.human) (E.marks first.now s) ∷ R.pieces rest.now s) ⊥
        (E.refuses first.now ∷ R.refusals rest.now) (E.is_value first.now × R.are_values rest.now) se.old se.new result }
{
    first.serialize(se)?;
    rest.write(se)
}

// Writes an element, and then the others, each after its name where structs are written with names.
#[inline(always)]
pub(crate) fn write_fields_then<E: Serialize, R: Elements, W: Sink, C: SerializerConfig>(
    first: &E,
    rest: &R,
    names: &[&'static str],
    se: &mut Serializer<W, C>,
) -> Result<(), Error>
    requires { length names.now ≡ suc R.count }
    ensures { WritesParts W.Sink (λ s. (E.takes_memory s || R.takes_memory s) || W.takes_memory)
        (λ s. flat_map (field_parts s.named) (fields_by names.now (E.data_of first.now s.human ∷ R.parts_of rest.now s.human)))
        (λ s. pieces_by s.named names.now (value_of s (E.data_of first.now s.human) (E.marks first.now s) ∷ R.pieces rest.now s))
        (AnyLong (lengths names.now)) (E.refuses first.now ∷ R.refusals rest.now) (E.is_value first.now × R.are_values rest.now)
        se.old se.new result }
{
    se.put_field(names[0], first)?;
    rest.write_fields(&names[1..], se)
}

// Elements that may be those of a tuple.
pub(crate) trait Row: Elements {
    // Writes them as the next elements of a tuple.
    fn add_to<W: Sink, C: SerializerConfig>(&self, tup: &mut Tuple<'_, W, C>) -> Result<(), Error>
        requires sound { is_sound tup.old ≡ true }
        requires room { Self.count ≤ left_of tup.old }
        ensures { TakesElements W.Sink Self.count Self.takes_memory (λ s. Self.parts_of self.now s.human) (Self.refusals self.now)
            (Self.are_values self.now) tup.old tup.new result };
}

// Writes an element, and then the others, as the next elements of a tuple.
#[inline(always)]
pub(crate) fn add_then<E: Serialize, R: Row, W: Sink, C: SerializerConfig>(
    first: &E,
    rest: &R,
    tup: &mut Tuple<'_, W, C>,
) -> Result<(), Error>
    requires sound { is_sound tup.old ≡ true }
    requires room { suc R.count ≤ left_of tup.old }
    ensures { TakesElements W.Sink (suc R.count) (λ s. E.takes_memory s || R.takes_memory s)
        (λ s. E.data_of first.now s.human ∷ R.parts_of rest.now s.human) (E.refuses first.now ∷ R.refusals rest.now)
        (E.is_value first.now × R.are_values rest.now) tup.old tup.new result }
{
    tup.serialize_element(first)?;
    rest.add_to(tup)
}
