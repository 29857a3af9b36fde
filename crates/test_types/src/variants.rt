//! An enum as a user writes it.
ghost use Rattle.std.specs.Prelude.{◌≡◌, ℕ, [], ◌∷◌, None, codes, string_bytes};
ghost use Rattle.rmp_decode.specs.Fields.{OfFields, Field, Absent, NoField};
ghost use Rattle.rmp_decode.specs.Read.{IsRaw, IsUnsigned};
ghost use Rattle.rmp_decode.specs.Rows.{AndThen, NoMore};
ghost use Rattle.rmp_decode.specs.Seq.{OfRow};
ghost use Rattle.rmp_decode.specs.Variants.{OfVariant, Case, NoCase, Bare, Content};
ghost use Rattle.test_types.specs.declared.variants.Shape.TheVariants as shape;

use rmp_decode::{Deserialize, Deserializer, Error};
use rmp_wire::ReadSlice;
use rmp_wire::config::SerializerConfig;

/// A variant without content, one of a number, one of a text and a number, and one of two numbers by their names.
#[derive(Drop)]
pub enum Shape {
    Point,
    Circle(u32),
    Named(String, u8),
    Frame { width: u16, height: u16 },
}

impl<'de, R: ReadSlice<'de>> Deserialize<'de, R> for Shape {
    ghost reads = { λ human lends m v. OfVariant (codes "Point" ∷ (codes "Circle" ∷ (codes "Named" ∷ (codes "Frame" ∷ []))))
        (Case (λ c. (v ≡ shape.Point) × Bare c)
        (Case (λ c. (n : ℕ) × (v ≡ shape.Circle n) × Content (λ k. IsUnsigned 4294967295 k n) c)
        (Case (λ c. (s : _) × (n : ℕ) × (v ≡ shape.Named s n)
        × Content (λ k. OfRow (AndThen (λ j. IsRaw j (string_bytes s)) (AndThen (λ j. IsUnsigned 255 j n) NoMore)) k) c)
        (Case (λ c. (w : ℕ) × (h : ℕ) × (v ≡ shape.Frame w h)
        × Content (λ k. OfFields (codes "width" ∷ (codes "height" ∷ [])) (Field (λ j. IsUnsigned 65535 j w) (Absent None w)
        (Field (λ j. IsUnsigned 65535 j h) (Absent None h) NoField)) k) c) NoCase)))) m };

    ghost absent = { None };

    fn deserialize<C: SerializerConfig>(de: &mut Deserializer<R, C>) -> Result<Shape, Error> {
        match de.deserialize_enum(&["Point", "Circle", "Named", "Frame"]) {
            Ok((0, point)) => match point.unit_variant() {
                Ok(()) => Ok(Shape::Point),
                Err(e) => Err(e),
            },
            Ok((1, circle)) => match circle.newtype_variant() {
                Ok(radius) => Ok(Shape::Circle(radius)),
                Err(e) => Err(e),
            },
            Ok((2, named)) => match named.newtype_variant() {
                Ok((name, number)) => Ok(Shape::Named(name, number)),
                Err(e) => Err(e),
            },
            Ok((_, frame)) => match frame.fields_variant(&["width", "height"]) {
                Ok((width, (height, ()))) => Ok(Shape::Frame { width, height }),
                Err(e) => Err(e),
            },
            Err(e) => Err(e),
        }
    }

    fn missing() -> Option<Shape> {
        None
    }
}
