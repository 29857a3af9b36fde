//! What can be written.
ghost use Rattle.std.specs.Prelude.{◌≡◌, ◌||◌, Bool, true, Option, OnOk, OnSome, IfErr};
ghost use Rattle.rmp_encode.specs.declared.settings.Settings.{Settings};
ghost use Rattle.rmp_encode.specs.Data.{Data};
ghost use Rattle.rmp_encode.specs.Markers.{any_mark};
ghost use Rattle.rmp_encode.specs.Refusals.{Errors, any_error};
ghost use Rattle.rmp_encode.specs.Trees.{tree_of, byte_of};
ghost use Rattle.rmp_encode.specs.Ser.{sink_of, settings_of};
ghost use Rattle.rmp_encode.specs.Writes.{Keeps, MarkedBy, Marks, WritesTree};

use crate::error::Error;
use crate::serializer::Serializer;
use rmp_wire::Sink;
use rmp_wire::config::SerializerConfig;

mod bytes;
mod collections;
mod lists;
mod numbers;
mod options;
mod pointers;
mod texts;
mod tuples;
mod wide;

/// A type whose values can be written.
pub trait Serialize {
    // What the value is for a serializer that writes for humans, or one that doesn't. `None`: the type refuses
    // the value.
    ghost data_of: { Self → Bool → Option Data };

    // What is known of a value of the type.
    ghost is_value: { Self → Type 0 };

    // Whether writing a value may allocate under these settings, apart from what the sink allocates.
    ghost takes_memory: { Settings → Bool } = { λ _. true };

    // What is known of the error that writing the value answers.
    ghost refuses: { Self → Errors } = { λ _. any_error };

    // What is known of it from the bytes that the sink tells before the write and after it: whether the first byte of an item was taken.
    ghost marks: { Self → Settings → Marks } = { λ _ _. any_mark };

    /// Writes the value.
    ///
    /// # Errors
    /// `InvalidValueWrite` where the sink fails, `InvalidDataModel` for a length of 2 ^ 32 or more,
    /// `OutOfMemory`, or the type's own refusal. The sink then holds what it held before, followed by a
    /// beginning of the encoding, which may be empty.
    fn serialize<W: Sink, C: SerializerConfig>(
        &self,
        se: &mut Serializer<W, C>,
    ) -> Result<(), Error>
        ensures writes { WritesTree W.Sink (takes_memory (settings_of se.old) || W.takes_memory)
            (tree_of (settings_of se.old) (data_of self.now (settings_of se.old).human)) (sink_of se.old) (sink_of se.new) result }
        ensures keeps { Keeps W.Sink se.old se.new }
        ensures marker { MarkedBy W.Sink (marks self.now (settings_of se.old)) (sink_of se.old) (sink_of se.new) result }
        ensures error { IfErr result (refuses self.now) }
        ensures value { OnOk result (is_value self.now) };

    /// Returns the number, exactly where the value is written by one call of `serialize_u8`.
    fn as_u8(&self, human: bool) -> Option<u8>
        ensures byte { result ≡ byte_of (data_of self.now human) }
        ensures value { OnSome result (is_value self.now) };
}
