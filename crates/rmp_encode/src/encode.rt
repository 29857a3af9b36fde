//! Writes whole values, to a sink or to a vector.
ghost use Rattle.std.specs.Prelude.{◌≡◌, ◌≢◌, ◌||◌, false, OnOk, OnErr, IfOk, IfErr};
ghost use Rattle.rmp_encode.specs.Calls.{default_settings, named_settings, IsSpelled, ToVecFails};
ghost use Rattle.rmp_encode.specs.Trees.{tree_of, spell, HasTree};
ghost use Rattle.rmp_encode.specs.Writes.{AppendsPart, MarkedBy, WritesTree};

use crate::error::Error;
use crate::ser::Serialize;
use crate::serializer::Serializer;
use rmp_wire::Sink;
use std::alloc::Global;

/// The bytes that `to_vec`'s vector has room for at first. Grown from nothing, an encoding of more than eight
/// bytes would be moved.
const FIRST_ROOM: usize = 32;

/// Writes a value to a sink. Structs are written as lists.
///
/// # Errors
/// `InvalidValueWrite` where the sink fails, `InvalidDataModel` for a length of 2 ^ 32 or more, `OutOfMemory`,
/// or the type's own refusal. The sink then holds what it held before, followed by a beginning of the encoding,
/// which may be empty.
///
/// # Examples
/// ```
/// use rmp_serde::encode::write;
/// use rmp_serde::wire::SliceSink;
///
/// let mut room = [0; 5];
/// let mut sink = SliceSink::new(&mut room);
/// write(alloc, &mut sink, &(42u8, "it"))?;
/// assert_eq!(rt; sink.written(), 5);
/// assert_eq!(rt; room, [0x92, 0x2a, 0xa2, 0x69, 0x74]);
/// ```
pub fn write<W: Sink, T: Serialize>(alloc: Global, wr: &mut W, value: &T) -> Result<(), Error>
    ensures writes { WritesTree W.Sink (T.takes_memory default_settings || W.takes_memory) (tree_of default_settings (T.data_of value.now false)) wr.old
        wr.new result }
    // After an error the sink has what it had, and then a beginning of the encoding, where the value has one.
    ensures prefix { OnErr result (HasTree (tree_of default_settings (T.data_of value.now false))
        → AppendsPart (W.told wr.old) (W.told wr.new) (spell (tree_of default_settings (T.data_of value.now false)))) }
    ensures spelled { OnOk result (IsSpelled (tree_of default_settings (T.data_of value.now false))
        (spell (tree_of default_settings (T.data_of value.now false)))) }
    ensures place { W.place wr.new ≡ W.place wr.old }
    ensures marker { MarkedBy W.Sink (T.marks value.now default_settings) wr.old wr.new result }
    ensures error { IfErr result (T.refuses value.now) }
    ensures value { OnOk result (T.is_value value.now) }
{
    let mut se = Serializer::new(alloc, wr);
    value.serialize(&mut se)
}

/// Writes a value to a sink. Structs are written as maps from field names.
///
/// # Errors
/// Those of `write`.
pub fn write_named<W: Sink, T: Serialize>(alloc: Global, wr: &mut W, value: &T) -> Result<(), Error>
    ensures writes { WritesTree W.Sink (T.takes_memory named_settings || W.takes_memory) (tree_of named_settings (T.data_of value.now false)) wr.old wr.new
        result }
    ensures spelled { OnOk result (IsSpelled (tree_of named_settings (T.data_of value.now false))
        (spell (tree_of named_settings (T.data_of value.now false)))) }
    ensures place { W.place wr.new ≡ W.place wr.old }
    ensures marker { MarkedBy W.Sink (T.marks value.now named_settings) wr.old wr.new result }
    ensures error { IfErr result (T.refuses value.now) }
    ensures value { OnOk result (T.is_value value.now) }
{
    let mut se = Serializer::named(alloc, wr);
    value.serialize(&mut se)
}

/// Returns the canonical encoding of a value. Structs are written as lists. `to_vec(alloc, &(42u8, "it"))` is
/// `92 2a a2 69 74`.
///
/// # Errors
/// `OutOfMemory`, `InvalidDataModel` for a length of 2 ^ 32 or more, or `Syntax` where the type refuses the
/// value.
///
/// # Examples
/// ```
/// use rmp_serde::to_vec;
///
/// let bytes = to_vec(alloc, &(42u8, "it"))?;
/// assert_eq!(rt; bytes.as_slice(), [0x92, 0x2a, 0xa2, 0x69, 0x74].as_slice());
/// ```
pub fn to_vec<T: Serialize>(alloc: Global, value: &T) -> Result<Vec<u8>, Error>
    ensures bytes { IfOk result (λ v. IsSpelled (tree_of default_settings (T.data_of value.now false)) v.items) }
    ensures value { OnOk result (T.is_value value.now) }
    ensures err { IfErr result (ToVecFails (tree_of default_settings (T.data_of value.now false))) }
    ensures error { IfErr result (λ e. e ≢ Error.OutOfMemory → T.refuses value.now e) }
{
    let mut se = Serializer::new(alloc, Vec::with_capacity(alloc, FIRST_ROOM)?);
    value.serialize(&mut se)?;
    Ok(se.into_inner())
}

/// Returns the canonical encoding of a value. Structs are written as maps from field names.
///
/// # Errors
/// Those of `to_vec`.
pub fn to_vec_named<T: Serialize>(alloc: Global, value: &T) -> Result<Vec<u8>, Error>
    ensures bytes { IfOk result (λ v. IsSpelled (tree_of named_settings (T.data_of value.now false)) v.items) }
    ensures value { OnOk result (T.is_value value.now) }
    ensures err { IfErr result (ToVecFails (tree_of named_settings (T.data_of value.now false))) }
    ensures error { IfErr result (λ e. e ≢ Error.OutOfMemory → T.refuses value.now e) }
{
    let mut se = Serializer::named(alloc, Vec::with_capacity(alloc, FIRST_ROOM)?);
    value.serialize(&mut se)?;
    Ok(se.into_inner())
}
