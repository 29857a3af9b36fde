//! How the types of trees.rt are written and read. Written by tools/derive.py.
//!
//! Sum of Tree: 502ba3af.
//! Sum of Term: 4dc375b4.
ghost use Rattle.rmp_decode.specs.Buffers.{IsBuffer};
ghost use Rattle.rmp_decode.specs.Law.{Lawful};
ghost use Rattle.rmp_decode.specs.Options.{IsOption};
ghost use Rattle.rmp_decode.specs.Read.{IsUnsigned, IsSigned, IsRaw, IsChar};
ghost use Rattle.rmp_decode.specs.Wide.{IsUnsigned128, IsSigned128};
ghost use Rattle.rmp_encode.specs.Refusals.{OfLength};
ghost use Rattle.rmp_encode.specs.Trees.{forces_slices};
ghost use Rattle.rmp_recursive.specs.Parts.{Row, Boxed};
ghost use Rattle.rmp_wire.specs.Msg.{nil, truth, float32, float64};
ghost use Rattle.rmp_wire.specs.Types.{buffer_bytes};
ghost use Rattle.std.specs.Prelude.{◌≡◌, None, Some, ⊤, string_bytes, pos, negsuc};
ghost use Rattle.test_recursive.specs.TermLevels.{IsTerm, term_data, term_fits};
ghost use Rattle.test_recursive.specs.TermRounds.{SameTerm, term_some, term_round, term_only, term_other};
ghost use Rattle.test_recursive.specs.TreeLevels.{IsTree, tree_data, tree_fits};
ghost use Rattle.test_recursive.specs.TreeRounds.{SameTree, tree_some, tree_round, tree_only, tree_other};

use super::{ByteBuf, F32Bits, F64Bits, Term, Tree};
use rmp_decode::{Deserialize, Deserializer, ReadContent, Slices};
use rmp_encode::{Serialize, Serializer};
use rmp_round_trip::{NeverNil, RoundTrip};
use rmp_wire::config::SerializerConfig;
use rmp_wire::{ReadSlice, Sink, Source};

fn read_u8<R: Source, C: SerializerConfig>(
    de: &mut Deserializer<R, C>,
) -> Result<u8, rmp_decode::Error>
    ensures law { Lawful R.Source (λ m v. IsUnsigned 255 m v) de.old de.new result }
{
    de.deserialize_u8()
}

fn read_i64<R: Source, C: SerializerConfig>(
    de: &mut Deserializer<R, C>,
) -> Result<i64, rmp_decode::Error>
    ensures law { Lawful R.Source (λ m v. IsSigned (negsuc 9223372036854775807) (pos 9223372036854775807) m v) de.old de.new result }
{
    de.deserialize_i64()
}

fn read_bool<R: Source, C: SerializerConfig>(
    de: &mut Deserializer<R, C>,
) -> Result<bool, rmp_decode::Error>
    ensures law { Lawful R.Source (λ m v. m ≡ truth v) de.old de.new result }
{
    de.deserialize_bool()
}

fn read_u128<R: Source, C: SerializerConfig>(
    de: &mut Deserializer<R, C>,
) -> Result<u128, rmp_decode::Error>
    ensures law { Lawful R.Source (λ m v. IsUnsigned128 m v) de.old de.new result }
{
    de.deserialize_u128()
}

fn read_i128<R: Source, C: SerializerConfig>(
    de: &mut Deserializer<R, C>,
) -> Result<i128, rmp_decode::Error>
    ensures law { Lawful R.Source (λ m v. IsSigned128 m v) de.old de.new result }
{
    de.deserialize_i128()
}

// How leaves are read. A function that calls itself may have no bound that names a lifetime, so it has this one, and is called with `Slices`.
trait ReadLeaves<R: Source> {
    fn read_string<C: SerializerConfig>(
        de: &mut Deserializer<R, C>,
    ) -> Result<String, rmp_decode::Error>
        ensures law { Lawful R.Source (λ m v. IsRaw m (string_bytes v)) de.old de.new result };

    fn read_char<C: SerializerConfig>(
        de: &mut Deserializer<R, C>,
    ) -> Result<char, rmp_decode::Error>
        ensures law { Lawful R.Source (λ m v. IsChar m v) de.old de.new result };

    fn read_f32bits<C: SerializerConfig>(
        de: &mut Deserializer<R, C>,
    ) -> Result<F32Bits, rmp_decode::Error>
        ensures law { Lawful R.Source (λ m v. m ≡ float32 v.0) de.old de.new result };

    fn read_f64bits<C: SerializerConfig>(
        de: &mut Deserializer<R, C>,
    ) -> Result<F64Bits, rmp_decode::Error>
        ensures law { Lawful R.Source (λ m v. m ≡ float64 v.0) de.old de.new result };

    fn read_bytebuf<C: SerializerConfig>(
        de: &mut Deserializer<R, C>,
    ) -> Result<ByteBuf, rmp_decode::Error>
        ensures law { Lawful R.Source (λ m v. IsBuffer m (buffer_bytes v)) de.old de.new result };

    fn read_usize<C: SerializerConfig>(
        de: &mut Deserializer<R, C>,
    ) -> Result<usize, rmp_decode::Error>
        ensures law { Lawful R.Source (λ m v. IsUnsigned 18446744073709551615 m v) de.old de.new result };

    fn read_isize<C: SerializerConfig>(
        de: &mut Deserializer<R, C>,
    ) -> Result<isize, rmp_decode::Error>
        ensures law { Lawful R.Source (λ m v. IsSigned (negsuc 9223372036854775807) (pos 9223372036854775807) m v) de.old de.new result };
}

impl<'de, R: ReadSlice<'de>> ReadLeaves<R> for Slices<'de> {
    fn read_string<C: SerializerConfig>(
        de: &mut Deserializer<R, C>,
    ) -> Result<String, rmp_decode::Error> {
        Deserialize::deserialize(de)
    }

    fn read_char<C: SerializerConfig>(
        de: &mut Deserializer<R, C>,
    ) -> Result<char, rmp_decode::Error> {
        Deserialize::deserialize(de)
    }

    fn read_f32bits<C: SerializerConfig>(
        de: &mut Deserializer<R, C>,
    ) -> Result<F32Bits, rmp_decode::Error> {
        Deserialize::deserialize(de)
    }

    fn read_f64bits<C: SerializerConfig>(
        de: &mut Deserializer<R, C>,
    ) -> Result<F64Bits, rmp_decode::Error> {
        Deserialize::deserialize(de)
    }

    fn read_bytebuf<C: SerializerConfig>(
        de: &mut Deserializer<R, C>,
    ) -> Result<ByteBuf, rmp_decode::Error> {
        Deserialize::deserialize(de)
    }

    fn read_usize<C: SerializerConfig>(
        de: &mut Deserializer<R, C>,
    ) -> Result<usize, rmp_decode::Error> {
        Deserialize::deserialize(de)
    }

    fn read_isize<C: SerializerConfig>(
        de: &mut Deserializer<R, C>,
    ) -> Result<isize, rmp_decode::Error> {
        Deserialize::deserialize(de)
    }
}

impl Serialize for Tree {
    ghost data_of = { λ v human. tree_data v };

    ghost is_value = { λ v. tree_fits v };

    ghost takes_memory = { λ s. forces_slices s.bytes };

    ghost refuses = { λ _. OfLength ⊤ };

    #[cycle(tree_writing)]
    fn serialize<W: Sink, C: SerializerConfig>(
        &self,
        se: &mut Serializer<W, C>,
    ) -> Result<(), rmp_encode::Error> {
        match self {
            Tree::Leaf(value) => se.serialize_newtype_variant("Tree", 0, "Leaf", value),
            Tree::Node(value) => se.serialize_newtype_variant("Tree", 1, "Node", value),
        }
    }

    #[tactic(auto, using(crate::proofs::TreeLevels::tree_no_byte))]
    fn as_u8(&self, _human: bool) -> Option<u8> {
        match self {
            Tree::Leaf(_) => None,
            Tree::Node(_) => None,
        }
    }
}

// Reads a `Tree`.
#[cycle(tree_reading)]
fn read_tree<R: Source, C: SerializerConfig, P: ReadContent<R>>(
    de: &mut Deserializer<R, C>,
) -> Result<Tree, rmp_decode::Error>
    ensures law { Lawful R.Source IsTree de.old de.new result }
{
    match de.deserialize_enum_by::<P>(&["Leaf", "Node"]) {
        Ok((0, variant)) => match variant.newtype_variant_with(read_u8::<R, C>) {
            Ok(value) => Ok(Tree::Leaf(value)),
            Err(e) => Err(e),
        },
        Ok((_, variant)) => match variant.newtype_variant_with(
            |de: &mut Deserializer<R, C>| -> Result<Vec<Tree>, rmp_decode::Error>
                ensures law { Lawful R.Source (λ m v. Row IsTree m v.items) de.old de.new result }
            { read_tree_list::<R, C, P>(de) },
        ) {
            Ok(value) => Ok(Tree::Node(value)),
            Err(e) => Err(e),
        },
        Err(e) => Err(e),
    }
}

// Reads a list of them.
#[cycle(tree_reading)]
fn read_tree_list<R: Source, C: SerializerConfig, P: ReadContent<R>>(
    de: &mut Deserializer<R, C>,
) -> Result<Vec<Tree>, rmp_decode::Error>
    ensures law { Lawful R.Source (λ m v. Row IsTree m v.items) de.old de.new result }
{
    let mut items = Vec::new(de.alloc());
    let mut seq = de.deserialize_seq()?;
    while let Some(item) = seq.next_element_with(
        |de: &mut Deserializer<R, C>| -> Result<Tree, rmp_decode::Error>
            ensures law { Lawful R.Source (λ m v. IsTree m v) de.old de.new result }
        { read_tree::<R, C, P>(de) },
    )? {
        items.push(item)?;
    }
    seq.end()?;
    Ok(items)
}

impl<'de, R: ReadSlice<'de>> Deserialize<'de, R> for Tree {
    ghost reads = { λ human lends. IsTree };

    ghost absent = { None };

    fn deserialize<C: SerializerConfig>(
        de: &mut Deserializer<R, C>,
    ) -> Result<Tree, rmp_decode::Error> {
        read_tree::<R, C, Slices<'de>>(de)
    }

    fn missing() -> Option<Tree> {
        None
    }
}

impl<'de, R: ReadSlice<'de>> RoundTrip<'de, R> for Tree {
    ghost has_data = { λ human v. tree_some v };

    ghost round = { λ lent s v fits. tree_round s v fits };

    ghost same = { SameTree };

    ghost alike = { λ human v w h. h };

    ghost only = { λ s v fits. tree_only s v fits };
}

impl NeverNil for Tree {
    ghost never_nil = { λ s v. tree_other s v };
}

impl Serialize for Term {
    ghost data_of = { λ v human. term_data v };

    ghost is_value = { λ v. term_fits v };

    ghost takes_memory = { λ s. forces_slices s.bytes };

    ghost refuses = { λ _. OfLength ⊤ };

    #[tactic(auto, unfolding(rmp_encode::specs::Data::lower))]
    #[cycle(term_writing)]
    fn serialize<W: Sink, C: SerializerConfig>(
        &self,
        se: &mut Serializer<W, C>,
    ) -> Result<(), rmp_encode::Error> {
        match self {
            Term::Nothing => se.serialize_unit_variant("Term", 0, "Nothing"),
            Term::Number(value) => se.serialize_newtype_variant("Term", 1, "Number", value),
            Term::Name(value) => se.serialize_newtype_variant("Term", 2, "Name", value),
            Term::Truth(value) => se.serialize_newtype_variant("Term", 3, "Truth", value),
            Term::Letter(value) => se.serialize_newtype_variant("Term", 4, "Letter", value),
            Term::Half(value) => se.serialize_newtype_variant("Term", 5, "Half", value),
            Term::Whole(value) => se.serialize_newtype_variant("Term", 6, "Whole", value),
            Term::Bytes(value) => se.serialize_newtype_variant("Term", 7, "Bytes", value),
            Term::Size(value) => se.serialize_newtype_variant("Term", 8, "Size", value),
            Term::Offset(value) => se.serialize_newtype_variant("Term", 9, "Offset", value),
            Term::Big(value) => se.serialize_newtype_variant("Term", 10, "Big", value),
            Term::Wide(value) => se.serialize_newtype_variant("Term", 11, "Wide", value),
            Term::Not(value) => se.serialize_newtype_variant("Term", 12, "Not", value),
            Term::Next(value) => se.serialize_newtype_variant("Term", 13, "Next", value),
            Term::Sum(value) => se.serialize_newtype_variant("Term", 14, "Sum", value),
        }
    }

    #[tactic(auto, using(crate::proofs::TermLevels::term_no_byte))]
    fn as_u8(&self, _human: bool) -> Option<u8> {
        match self {
            Term::Nothing => None,
            Term::Number(_) => None,
            Term::Name(_) => None,
            Term::Truth(_) => None,
            Term::Letter(_) => None,
            Term::Half(_) => None,
            Term::Whole(_) => None,
            Term::Bytes(_) => None,
            Term::Size(_) => None,
            Term::Offset(_) => None,
            Term::Big(_) => None,
            Term::Wide(_) => None,
            Term::Not(_) => None,
            Term::Next(_) => None,
            Term::Sum(_) => None,
        }
    }
}

// Reads a `Term`.
#[cycle(term_reading)]
fn read_term<R: Source, C: SerializerConfig, P: ReadContent<R> + ReadLeaves<R>>(
    de: &mut Deserializer<R, C>,
) -> Result<Term, rmp_decode::Error>
    ensures law { Lawful R.Source IsTerm de.old de.new result }
{
    match de.deserialize_enum_by::<P>(&[
        "Nothing", "Number", "Name", "Truth", "Letter", "Half", "Whole", "Bytes", "Size", "Offset",
        "Big", "Wide", "Not", "Next", "Sum",
    ]) {
        Ok((0, variant)) => match variant.unit_variant() {
            Ok(()) => Ok(Term::Nothing),
            Err(e) => Err(e),
        },
        Ok((1, variant)) => match variant.newtype_variant_with(read_i64::<R, C>) {
            Ok(value) => Ok(Term::Number(value)),
            Err(e) => Err(e),
        },
        Ok((2, variant)) => match variant.newtype_variant_with(
            |de: &mut Deserializer<R, C>| -> Result<String, rmp_decode::Error>
                ensures law { Lawful R.Source (λ m v. IsRaw m (string_bytes v)) de.old de.new result }
            { P::read_string::<C>(de) },
        ) {
            Ok(value) => Ok(Term::Name(value)),
            Err(e) => Err(e),
        },
        Ok((3, variant)) => match variant.newtype_variant_with(read_bool::<R, C>) {
            Ok(value) => Ok(Term::Truth(value)),
            Err(e) => Err(e),
        },
        Ok((4, variant)) => match variant.newtype_variant_with(
            |de: &mut Deserializer<R, C>| -> Result<char, rmp_decode::Error>
                ensures law { Lawful R.Source (λ m v. IsChar m v) de.old de.new result }
            { P::read_char::<C>(de) },
        ) {
            Ok(value) => Ok(Term::Letter(value)),
            Err(e) => Err(e),
        },
        Ok((5, variant)) => match variant.newtype_variant_with(
            |de: &mut Deserializer<R, C>| -> Result<F32Bits, rmp_decode::Error>
                ensures law { Lawful R.Source (λ m v. m ≡ float32 v.0) de.old de.new result }
            { P::read_f32bits::<C>(de) },
        ) {
            Ok(value) => Ok(Term::Half(value)),
            Err(e) => Err(e),
        },
        Ok((6, variant)) => match variant.newtype_variant_with(
            |de: &mut Deserializer<R, C>| -> Result<F64Bits, rmp_decode::Error>
                ensures law { Lawful R.Source (λ m v. m ≡ float64 v.0) de.old de.new result }
            { P::read_f64bits::<C>(de) },
        ) {
            Ok(value) => Ok(Term::Whole(value)),
            Err(e) => Err(e),
        },
        Ok((7, variant)) => match variant.newtype_variant_with(
            |de: &mut Deserializer<R, C>| -> Result<ByteBuf, rmp_decode::Error>
                ensures law { Lawful R.Source (λ m v. IsBuffer m (buffer_bytes v)) de.old de.new result }
            { P::read_bytebuf::<C>(de) },
        ) {
            Ok(value) => Ok(Term::Bytes(value)),
            Err(e) => Err(e),
        },
        Ok((8, variant)) => match variant.newtype_variant_with(
            |de: &mut Deserializer<R, C>| -> Result<usize, rmp_decode::Error>
                ensures law { Lawful R.Source (λ m v. IsUnsigned 18446744073709551615 m v) de.old de.new result }
            { P::read_usize::<C>(de) },
        ) {
            Ok(value) => Ok(Term::Size(value)),
            Err(e) => Err(e),
        },
        Ok((9, variant)) => match variant.newtype_variant_with(
            |de: &mut Deserializer<R, C>| -> Result<isize, rmp_decode::Error>
                ensures law { Lawful R.Source (λ m v. IsSigned (negsuc 9223372036854775807) (pos 9223372036854775807) m v) de.old de.new result }
            { P::read_isize::<C>(de) },
        ) {
            Ok(value) => Ok(Term::Offset(value)),
            Err(e) => Err(e),
        },
        Ok((10, variant)) => match variant.newtype_variant_with(read_u128::<R, C>) {
            Ok(value) => Ok(Term::Big(value)),
            Err(e) => Err(e),
        },
        Ok((11, variant)) => match variant.newtype_variant_with(read_i128::<R, C>) {
            Ok(value) => Ok(Term::Wide(value)),
            Err(e) => Err(e),
        },
        Ok((12, variant)) => match variant.newtype_variant_with(
            |de: &mut Deserializer<R, C>| -> Result<Box<Term>, rmp_decode::Error>
                ensures law { Lawful R.Source (λ m v. IsTerm m v.value) de.old de.new result }
            { read_term_box::<R, C, P>(de) },
        ) {
            Ok(value) => Ok(Term::Not(value)),
            Err(e) => Err(e),
        },
        Ok((13, variant)) => match variant.newtype_variant_with(
            |de: &mut Deserializer<R, C>| -> Result<Option<Box<Term>>, rmp_decode::Error>
                ensures law { Lawful R.Source (λ m v. IsOption (Boxed IsTerm) m v) de.old de.new result }
            { read_term_option::<R, C, P>(de) },
        ) {
            Ok(value) => Ok(Term::Next(value)),
            Err(e) => Err(e),
        },
        Ok((_, variant)) => match variant.newtype_variant_with(
            |de: &mut Deserializer<R, C>| -> Result<Vec<Term>, rmp_decode::Error>
                ensures law { Lawful R.Source (λ m v. Row IsTerm m v.items) de.old de.new result }
            { read_term_list::<R, C, P>(de) },
        ) {
            Ok(value) => Ok(Term::Sum(value)),
            Err(e) => Err(e),
        },
        Err(e) => Err(e),
    }
}

// Reads a boxed one.
#[cycle(term_reading)]
fn read_term_box<R: Source, C: SerializerConfig, P: ReadContent<R> + ReadLeaves<R>>(
    de: &mut Deserializer<R, C>,
) -> Result<Box<Term>, rmp_decode::Error>
    ensures law { Lawful R.Source (λ m v. IsTerm m v.value) de.old de.new result }
{
    let value = match read_term::<R, C, P>(de) {
        Ok(value) => value,
        Err(e) => return Err(e),
    };
    match Box::new(de.alloc(), value) {
        Ok(boxed) => Ok(boxed),
        Err(_) => Err(de.refuse(rmp_decode::Error::OutOfMemory)),
    }
}

// Reads nil as none, or else a boxed one.
#[cycle(term_reading)]
fn read_term_option<R: Source, C: SerializerConfig, P: ReadContent<R> + ReadLeaves<R>>(
    de: &mut Deserializer<R, C>,
) -> Result<Option<Box<Term>>, rmp_decode::Error>
    ensures law { Lawful R.Source (λ m v. IsOption (Boxed IsTerm) m v) de.old de.new result }
{
    de.deserialize_option_with(
        |de: &mut Deserializer<R, C>| -> Result<Box<Term>, rmp_decode::Error>
            ensures law { Lawful R.Source (λ m v. IsTerm m v.value) de.old de.new result }
        { read_term_box::<R, C, P>(de) },
    )
}

// Reads a list of them.
#[cycle(term_reading)]
fn read_term_list<R: Source, C: SerializerConfig, P: ReadContent<R> + ReadLeaves<R>>(
    de: &mut Deserializer<R, C>,
) -> Result<Vec<Term>, rmp_decode::Error>
    ensures law { Lawful R.Source (λ m v. Row IsTerm m v.items) de.old de.new result }
{
    let mut items = Vec::new(de.alloc());
    let mut seq = de.deserialize_seq()?;
    while let Some(item) = seq.next_element_with(
        |de: &mut Deserializer<R, C>| -> Result<Term, rmp_decode::Error>
            ensures law { Lawful R.Source (λ m v. IsTerm m v) de.old de.new result }
        { read_term::<R, C, P>(de) },
    )? {
        items.push(item)?;
    }
    seq.end()?;
    Ok(items)
}

impl<'de, R: ReadSlice<'de>> Deserialize<'de, R> for Term {
    ghost reads = { λ human lends. IsTerm };

    ghost absent = { None };

    fn deserialize<C: SerializerConfig>(
        de: &mut Deserializer<R, C>,
    ) -> Result<Term, rmp_decode::Error> {
        read_term::<R, C, Slices<'de>>(de)
    }

    fn missing() -> Option<Term> {
        None
    }
}

impl<'de, R: ReadSlice<'de>> RoundTrip<'de, R> for Term {
    ghost has_data = { λ human v. term_some v };

    ghost round = { λ lent s v fits. term_round s v fits };

    ghost same = { SameTerm };

    ghost alike = { λ human v w h. h };

    ghost only = { λ s v fits. term_only s v fits };
}

impl NeverNil for Term {
    ghost never_nil = { λ s v. term_other s v };
}
