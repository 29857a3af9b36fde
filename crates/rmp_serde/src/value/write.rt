//! Writes the canonical encoding of a value.
ghost use Rattle.std.specs.Prelude.{◌≡◌, ◌∷◌, length, false, Some};
ghost use Rattle.std.specs.List.{flat_map};
ghost use Rattle.rmp_wire.specs.Spelling.{canon, Fits};
ghost use Rattle.rmp_wire.specs.Writing.{Writes};
ghost use Rattle.rmp_encode.specs.Refusals.{OfSink};
ghost use Rattle.rmp_serde.specs.Flat.{spelled_in, EndsBy, IsWithin};
ghost use Rattle.rmp_serde.specs.Read.{AllTextsUtf8};
ghost use Rattle.rmp_serde.specs.TreeWrites.{WritesTree};
ghost use Rattle.rmp_serde.specs.ValueData.{value_data};

use crate::value::Value;
use crate::value::flat::{Node, Nodes};
use rmp_encode::{Error, Serialize, Serializer};
use rmp_wire::config::SerializerConfig;
use rmp_wire::write::{
    write_array_len, write_bin_len, write_bool, write_content, write_ext_meta, write_f32_bits,
    write_f64_bits, write_map_len, write_nil, write_sint, write_str_len, write_uint,
};
use rmp_wire::{Sink, ValueWriteError};

// Writes a head and its content, without a copy of the content.
#[inline(always)]
fn write_node<W: Sink>(sink: &mut W, node: Node, parts: &Nodes) -> Result<(), ValueWriteError>
    requires within { EndsBy (length parts.now.bytes.items) node }
    ensures writes { Writes W.Sink (spelled_in parts.now.bytes.items node) sink.old sink.new result }
    ensures place { W.place sink.new ≡ W.place sink.old }
{
    match node {
        Node::Nil => write_nil(sink),
        Node::Truth(truth) => write_bool(sink, truth),
        Node::Unsigned(number) => write_uint(sink, number),
        Node::Signed(number) => write_sint(sink, number),
        Node::F32(bits) => write_f32_bits(sink, bits),
        Node::F64(bits) => write_f64_bits(sink, bits),
        Node::Text(len, _) => {
            write_str_len(sink, len)?;
            write_content(sink, parts.content(node))
        }
        Node::Bytes(len, _) => {
            write_bin_len(sink, len)?;
            write_content(sink, parts.content(node))
        }
        Node::List(len, _) => write_array_len(sink, len),
        Node::Map(len, _) => write_map_len(sink, len),
        Node::Ext(tag, len, _) => {
            write_ext_meta(sink, len, tag)?;
            write_content(sink, parts.content(node))
        }
    }
}

// Writes the root and the nodes after it, in order. There is one call of `write_node`, so it is inlined into
// the loop.
fn write_nodes<W: Sink>(sink: &mut W, root: Node, parts: &Nodes) -> Result<(), ValueWriteError>
    requires root { EndsBy (length parts.now.bytes.items) root }
    requires within { IsWithin parts.now }
    ensures writes { WritesTree W.Sink (flat_map (spelled_in parts.now.bytes.items) (root ∷ parts.now.nodes.items)) sink.old sink.new result }
    ensures place { W.place sink.new ≡ W.place sink.old }
{
    for at in 0..parts.nodes.len() + 1 {
        write_node(sink, parts.node(root, at), parts)?;
    }
    Ok(())
}

// Writes the canonical encoding of a value.
pub(crate) fn write_value<W: Sink>(sink: &mut W, value: &Value) -> Result<(), ValueWriteError>
    ensures writes { WritesTree W.Sink (canon value.now) sink.old sink.new result }
    ensures place { W.place sink.new ≡ W.place sink.old }
{
    write_nodes(sink, value.root, &value.parts)
}

impl Serialize for Value {
    ghost data_of = { λ v _. Some (value_data v) };

    ghost is_value = { λ v. Fits v × AllTextsUtf8 v };

    ghost takes_memory = { λ _. false };

    ghost refuses = { λ _. OfSink };

    fn serialize<W: Sink, C: SerializerConfig>(
        &self,
        se: &mut Serializer<W, C>,
    ) -> Result<(), Error> {
        let _ = &self.root;
        write_value(se.get_mut(), self)?;
        Ok(())
    }

    #[tactic(auto, using(crate::proofs::Lowering::value_no_byte))]
    fn as_u8(&self, _human: bool) -> Option<u8> {
        None
    }
}
