//! The sink under a serializer.
ghost use Rattle.std.specs.Prelude.{◌≡◌};
ghost use Rattle.std.specs.Borrow.{sem, Lends};

use crate::serializer::Serializer;
use rmp_wire::Sink;
use rmp_wire::config::SerializerConfig;

/// A writer over a sink, which it gives access to.
pub trait UnderlyingWrite {
    type Write: Sink;

    // the sink, and the same with another sink
    ghost sink: { Self → Self.Write };

    ghost with_sink: { Self → Self.Write → Self };

    /// Returns a reference to the sink.
    fn get_ref(&self) -> &Self::Write
        ensures { result.now ≡ sink self.now };

    /// Returns a mutable reference to the sink.
    fn get_mut(&mut self) -> &mut Self::Write
        ensures* writes_back { sem 𝓛 (Lends Self.row Self.Write.row self.entry result (with_sink self.old)) }
        ensures value { result.now ≡ sink self.old };

    /// Returns the sink, and drops the writer.
    fn into_inner(self) -> Self::Write
    where
        Self: Sized,
        ensures { result ≡ sink self };
}

impl<W: Sink, C: SerializerConfig> UnderlyingWrite for Serializer<W, C> {
    ghost use Rattle.rmp_encode.specs.Ser.{sink_of, with_sink};

    type Write = W;

    ghost sink = { sink_of };

    ghost with_sink = { with_sink };

    fn get_ref(&self) -> &W {
        Serializer::get_ref(self)
    }

    fn get_mut(&mut self) -> &mut W {
        Serializer::get_mut(self)
    }

    fn into_inner(self) -> W {
        Serializer::into_inner(self)
    }
}
