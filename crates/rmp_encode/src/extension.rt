//! Extensions: a type, and then the bytes.
ghost use Rattle.std.specs.Prelude.{◌≡◌, ◌≤◌, ◌^◌, Some, IfErr, length};
ghost use Rattle.rmp_wire.specs.Msg.{extension};
ghost use Rattle.rmp_encode.specs.Extensions.{inside, reference, tagged_inside, tagged_reference, type_of};
ghost use Rattle.rmp_encode.specs.Refusals.{OfLength, RefusesLength};
ghost use Rattle.rmp_encode.specs.Ser.{sink_of};
ghost use Rattle.rmp_encode.specs.Writes.{Keeps, NoneAtMarker, WritesTree, StaysAtRefusal};

use crate::error::Error;
use crate::serializer::Serializer;
use rmp_wire::Sink;
use rmp_wire::config::SerializerConfig;

/// An extension that is being written, whose type comes next.
#[derive(Drop)]
pub struct ExtSerializer<'a, W, C> {
    pub(crate) se: &'a mut Serializer<W, C>,
}

/// An extension that is being written, whose bytes come next.
#[derive(Drop)]
pub struct ExtFieldSerializer<'a, W, C> {
    pub(crate) se: &'a mut Serializer<W, C>,
    pub(crate) tag: i8,
}

impl<'a, W: Sink, C: SerializerConfig> ExtSerializer<'a, W, C> {
    /// Sets the type. Nothing is written.
    pub fn tag(self, tag: i8) -> ExtFieldSerializer<'a, W, C>
        ensures same_reference { tagged_reference result ≡ reference self.entry }
        ensures stays { tagged_inside result ≡ inside self.entry }
        ensures tag { type_of result ≡ tag }
    {
        ExtFieldSerializer { se: self.se, tag }
    }
}

impl<'a, W: Sink, C: SerializerConfig> ExtFieldSerializer<'a, W, C> {
    /// Writes the extension.
    ///
    /// # Errors
    /// `InvalidDataModel` for 2 ^ 32 bytes or more, and nothing is written; otherwise those of the sink.
    pub fn bytes(self, bytes: &[u8]) -> Result<(), Error>
        ensures writes { WritesTree W.Sink W.takes_memory (Some (extension (type_of self.entry) bytes.now)) (sink_of (tagged_inside self.entry))
            (sink_of self.exit.0.now) result }
        ensures keeps { Keeps W.Sink (tagged_inside self.entry) self.exit.0.now }
        ensures marker { NoneAtMarker W.Sink (sink_of (tagged_inside self.entry)) (sink_of self.exit.0.now) result }
        ensures error { IfErr result (OfLength (2 ^ 32 ≤ length bytes.now)) }
        ensures refused { StaysAtRefusal (tagged_inside self.entry) self.exit.0.now result }
        ensures long { 2 ^ 32 ≤ length bytes.now → RefusesLength (tagged_inside self.entry) self.exit.0.now result }
    {
        let ExtFieldSerializer { se, tag } = self;
        se.serialize_ext(tag, bytes)
    }
}
