//! A list and a map whose writing doesn't tell their length.
ghost use Rattle.std.specs.Prelude.{true, map, All, OnOk};
ghost use Rattle.rmp_encode.specs.Ser.{sink_of, settings_of};
ghost use Rattle.rmp_encode.specs.Trees.{tree_of, sequence_of, mapping_of, in_turn};
ghost use Rattle.rmp_encode.specs.Writes.{Keeps, WritesTree};

use rmp_encode::{Error, Serialize, Serializer};
use rmp_wire::Sink;
use rmp_wire::config::SerializerConfig;
use std::collections::BTreeMap;

/// A list whose length isn't told.
#[derive(Drop)]
pub struct UnkSeq<T> {
    pub items: Vec<T>,
}

/// A map whose length isn't told.
#[derive(Drop)]
pub struct UnkMap<K: Ord, V> {
    pub entries: BTreeMap<K, V>,
}

// A list of values, whose number isn't told.
fn list_of<W: Sink, C: SerializerConfig, T: Serialize>(
    se: &mut Serializer<W, C>,
    values: &[T],
) -> Result<(), Error>
    ensures writes { WritesTree W.Sink true (tree_of (settings_of se.old) (sequence_of (map (λ x. T.data_of x (settings_of se.old).human) values.now)))
        (sink_of se.old) (sink_of se.new) result }
    ensures keeps { Keeps W.Sink se.old se.new }
    ensures value { OnOk result (All T.is_value values.now) }
{
    let mut seq = se.serialize_seq(None)?;
    for value in values {
        seq.serialize_element(value)?;
    }
    seq.end()
}

impl<T: Serialize> Serialize for UnkSeq<T> {
    ghost data_of = { λ v human. sequence_of (map (λ x. T.data_of x human) v.items.items) };

    ghost is_value = { λ v. All T.is_value v.items.items };

    fn serialize<W: Sink, C: SerializerConfig>(
        &self,
        se: &mut Serializer<W, C>,
    ) -> Result<(), Error> {
        list_of(se, self.items.as_slice())
    }

    #[tactic(auto, using(rmp_encode::proofs::Lists::sequence_no_byte))]
    fn as_u8(&self, _human: bool) -> Option<u8> {
        None
    }
}

impl<K: Serialize + Ord, V: Serialize> Serialize for UnkMap<K, V> {
    ghost data_of = { λ v human. mapping_of (in_turn (λ k. K.data_of k human) (λ x. V.data_of x human) v.entries.entries) };

    ghost is_value = { λ v. All (λ e. K.is_value e.0 × V.is_value e.1) v.entries.entries };

    fn serialize<W: Sink, C: SerializerConfig>(
        &self,
        se: &mut Serializer<W, C>,
    ) -> Result<(), Error> {
        let mut map = se.serialize_map(None)?;
        for (key, value) in &self.entries {
            map.serialize_key(key)?;
            map.serialize_value(value)?;
        }
        map.end()
    }

    #[tactic(auto, using(rmp_encode::proofs::Lists::mapping_no_byte))]
    fn as_u8(&self, _human: bool) -> Option<u8> {
        None
    }
}
