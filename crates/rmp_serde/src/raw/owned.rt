//! Owned bytes.
#![tactic(auto, unfolding(rmp_encode::specs::Data::lower), using(rmp_encode::proofs::Parts::part_memory))]

ghost use Rattle.std.specs.Prelude.{◌≡◌, ◌≤◌, ◌^◌, ◌||◌, ◌↔◌, None, Some, OnOk, IfErr, IsTrue, IsUtf8, MatchOption, false, length, string_bytes};
ghost use Rattle.rmp_ends.specs.LeafEnds.{raw_inside};
ghost use Rattle.std.specs.Str.{bytes_eq, valid_up_to};
ghost use Rattle.std.specs.Str.Lossy.{utf8_valid_len};
ghost use Rattle.std.specs.Cmp.{on_per, partial_equiv_from_equiv};
ghost use Rattle.std.proofs.lemmas.Cmp.{nat_list_eq_equiv};
ghost use Rattle.rmp_decode.specs.Content.{IsRawHead, RefusesContent, not_raw, never_refused};
ghost use Rattle.rmp_decode.specs.Read.{IsRaw};
ghost use Rattle.rmp_encode.specs.Refusals.{OfLength, RefusesLength};
ghost use Rattle.rmp_encode.specs.Ser.{sink_of, settings_of};
ghost use Rattle.rmp_encode.specs.Trees.{tree_of};
ghost use Rattle.rmp_encode.specs.Writes.{AtItem, Keeps, NoneAtMarker, WritesTree};
ghost use Rattle.rmp_serde.specs.RawRounds.{raw_alike, raw_only, raw_row, raw_other};
ghost use Rattle.rmp_serde.specs.Raws.{raw_bytes, raw_data};

use crate::raw::{Content, Other, Raw};
use rmp_decode::{Deserialize, Deserializer, Error};
use rmp_encode::{Serialize, Serializer};
use rmp_ends::EndsInside;
use rmp_round_trip::{NeverNil, RoundTrip};
use rmp_wire::config::SerializerConfig;
use rmp_wire::{ReadSlice, Sink};
use std::str::Utf8Error;

impl Raw {
    /// Makes a `Raw` of a text.
    pub fn new(text: String) -> Raw
        ensures { raw_bytes result ≡ string_bytes text }
    {
        Raw {
            content: Content::Text(text),
        }
    }

    /// Makes a `Raw` of bytes, whether they are UTF-8 or not.
    pub fn from_utf8(bytes: Vec<u8>) -> Raw
        ensures { raw_bytes result ≡ bytes.items }
    {
        match String::from_utf8(bytes) {
            Ok(text) => return Raw::new(text),
            Err(e) => {
                let error = e.utf8_error();
                let bytes = e.into_bytes();
                return Raw {
                    content: Content::Other(Other { bytes, error }),
                };
            }
        }
    }

    /// Returns whether the bytes are UTF-8.
    pub fn is_str(&self) -> bool
        ensures { IsTrue result ↔ IsUtf8 (raw_bytes self.now) }
    {
        match &self.content {
            Content::Text(_) => true,
            Content::Other(_) => false,
        }
    }

    /// Returns whether the bytes aren't UTF-8.
    pub fn is_err(&self) -> bool
        ensures { IsTrue result ↔ (IsUtf8 (raw_bytes self.now) → ⊥) }
    {
        !self.is_str()
    }

    /// Returns the text, if the bytes are UTF-8.
    pub fn as_str(&self) -> Option<&str>
        ensures { MatchOption result (IsUtf8 (raw_bytes self.now) → ⊥) (λ s. (s.now ≡ raw_bytes self.now) × IsUtf8 (raw_bytes self.now)) }
    {
        match &self.content {
            Content::Text(text) => Some(text.as_str()),
            Content::Other(_) => None,
        }
    }

    /// Returns why the bytes aren't UTF-8, if they aren't, and up to which offset they are.
    pub fn as_err(&self) -> Option<&Utf8Error>
        ensures { MatchOption result (IsUtf8 (raw_bytes self.now))
            (λ e. (IsUtf8 (raw_bytes self.now) → ⊥) × (valid_up_to e.now ≡ utf8_valid_len (raw_bytes self.now))) }
    {
        match &self.content {
            Content::Text(_) => None,
            Content::Other(other) => Some(&other.error),
        }
    }

    /// Returns the bytes.
    pub fn as_bytes(&self) -> &[u8]
        ensures { result.now ≡ raw_bytes self.now }
    {
        match &self.content {
            Content::Text(text) => text.as_bytes(),
            Content::Other(other) => other.bytes.as_slice(),
        }
    }

    /// Returns the text, if the bytes are UTF-8.
    pub fn into_str(self) -> Option<String>
        ensures { MatchOption result (IsUtf8 (raw_bytes self) → ⊥) (λ s. (string_bytes s ≡ raw_bytes self) × IsUtf8 (raw_bytes self)) }
    {
        match self.content {
            Content::Text(text) => Some(text),
            Content::Other(_) => None,
        }
    }

    /// Returns the bytes, as a vector.
    pub fn into_bytes(self) -> Vec<u8>
        ensures { result.items ≡ raw_bytes self }
    {
        match self.content {
            Content::Text(text) => text.into_bytes(),
            Content::Other(other) => other.bytes,
        }
    }
}

impl PartialEq for Raw {
    ghost eq = { λ a b. bytes_eq (raw_bytes a) (raw_bytes b) };

    ghost laws = { on_per raw_bytes (partial_equiv_from_equiv nat_list_eq_equiv) };

    fn eq(&self, other: &Raw) -> bool
        ensures value { result ≡ bytes_eq (raw_bytes self.now) (raw_bytes other.now) }
        ensures equal { IsTrue result ↔ (raw_bytes self.now ≡ raw_bytes other.now) }
    {
        self.as_bytes() == other.as_bytes()
    }
}

impl Serialize for Raw {
    ghost data_of = { λ v _. Some (raw_data (raw_bytes v)) };

    ghost is_value = { λ _. Unit {0} };

    ghost takes_memory = { λ _. false };

    ghost refuses = { λ v. OfLength (2 ^ 32 ≤ length (raw_bytes v)) };

    ghost marks = { λ _ _. AtItem };

    fn serialize<W: Sink, C: SerializerConfig>(
        &self,
        se: &mut Serializer<W, C>,
    ) -> Result<(), rmp_encode::Error>
        ensures writes { WritesTree W.Sink (false || W.takes_memory) (tree_of (settings_of se.old) (Some (raw_data (raw_bytes self.now))))
            (sink_of se.old) (sink_of se.new) result }
        ensures marker { NoneAtMarker W.Sink (sink_of se.old) (sink_of se.new) result }
        ensures keeps { Keeps W.Sink se.old se.new }
        ensures error { IfErr result (OfLength (2 ^ 32 ≤ length (raw_bytes self.now))) }
        ensures long { 2 ^ 32 ≤ length (raw_bytes self.now) → RefusesLength se.old se.new result }
        ensures value { OnOk result (Unit {0}) }
    {
        match self.as_str() {
            Some(text) => se.serialize_str(text),
            None => se.serialize_bytes(self.as_bytes()),
        }
    }

    #[tactic(auto, using(crate::proofs::RawWriting::raw_no_byte))]
    fn as_u8(&self, _human: bool) -> Option<u8> {
        None
    }
}

impl<'de, R: ReadSlice<'de>> Deserialize<'de, R> for Raw {
    ghost reads = { λ human lends m v. IsRaw m (raw_bytes v) };

    ghost absent = { None };

    ghost refuses = { λ s. RefusesContent s.strict IsRawHead not_raw never_refused };

    fn deserialize<C: SerializerConfig>(de: &mut Deserializer<R, C>) -> Result<Raw, Error> {
        match de.deserialize_raw() {
            Ok(raw) => return Ok(Raw::from_utf8(raw.1)),
            Err(e) => return Err(e),
        }
    }

    fn missing() -> Option<Raw> {
        None
    }
}

impl<'de, R: ReadSlice<'de>> EndsInside<'de, R> for Raw {
    ghost ends_inside = { raw_inside };
}

impl<'de, R: ReadSlice<'de>> RoundTrip<'de, R> for Raw {
    ghost use Rattle.std.proofs.Common.{refl};

    ghost has_data = { λ human v. refl };

    ghost round = { λ lent s v fits. raw_row s (raw_bytes v) };

    ghost same = { λ v w. raw_bytes v ≡ raw_bytes w };

    ghost alike = { λ human v w h. raw_alike (raw_bytes v) (raw_bytes w) h };

    ghost only = { λ s v fits. raw_only s (λ w. raw_bytes w) (raw_bytes v) };
}

impl NeverNil for Raw {
    ghost never_nil = { λ s v. raw_other s (raw_bytes v) };
}
