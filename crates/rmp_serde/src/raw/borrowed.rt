//! Borrowed bytes.
#![tactic(auto, unfolding(rmp_encode::specs::Data::lower), using(rmp_encode::proofs::Parts::part_memory))]

ghost use Rattle.std.specs.Prelude.{◌≡◌, ◌≤◌, ◌^◌, ◌||◌, ◌↔◌, None, Some, OnOk, IfErr, IsTrue, IsUtf8, MatchOption, false, if◌then◌else◌, length, true};
ghost use Rattle.rmp_ends.specs.LeafEnds.{bytes_inside};
ghost use Rattle.std.specs.Str.{bytes_eq, valid_up_to};
ghost use Rattle.std.specs.Str.Lossy.{utf8_valid_len};
ghost use Rattle.std.specs.Cmp.{on_per, partial_equiv_from_equiv};
ghost use Rattle.std.proofs.lemmas.Cmp.{nat_list_eq_equiv};
ghost use Rattle.rmp_decode.specs.Content.{IsRawHead, RefusesContent, not_raw, not_bytes};
ghost use Rattle.rmp_decode.specs.Read.{IsRaw};
ghost use Rattle.rmp_encode.specs.Refusals.{OfLength, RefusesLength};
ghost use Rattle.rmp_encode.specs.Ser.{sink_of, settings_of};
ghost use Rattle.rmp_encode.specs.Trees.{tree_of};
ghost use Rattle.rmp_encode.specs.Writes.{AtItem, Keeps, NoneAtMarker, WritesTree};
ghost use Rattle.rmp_serde.specs.RawRounds.{raw_alike, raw_ref_only, raw_ref_row, raw_other};
ghost use Rattle.rmp_serde.specs.Raws.{raw_ref_bytes, raw_data};

use crate::raw::{ContentRef, OtherRef, RawRef};
use rmp_decode::{Deserialize, Deserializer, Error};
use rmp_encode::{Serialize, Serializer};
use rmp_ends::EndsInside;
use rmp_round_trip::{NeverNil, RoundTrip};
use rmp_wire::config::SerializerConfig;
use rmp_wire::{ReadSlice, Sink};
use std::str;
use std::str::Utf8Error;

impl<'a> RawRef<'a> {
    /// Makes a `RawRef` of a text.
    pub fn new(text: &'a str) -> RawRef<'a>
        ensures { raw_ref_bytes result ≡ text.now }
    {
        RawRef {
            content: ContentRef::Text(text),
        }
    }

    /// Makes a `RawRef` of bytes, whether they are UTF-8 or not.
    ///
    /// # Examples
    /// ```
    /// use rmp_serde::{RawRef, to_vec};
    ///
    /// assert_eq!(rt; to_vec(alloc, &RawRef::from_utf8(b"it"))?.as_slice(), [0xa2, 0x69, 0x74].as_slice());
    /// // what is no UTF-8 is written as bytes
    /// assert_eq!(rt; to_vec(alloc, &RawRef::from_utf8(b"\xff"))?.as_slice(), [0xc4, 0x01, 0xff].as_slice());
    /// ```
    pub fn from_utf8(bytes: &'a [u8]) -> RawRef<'a>
        ensures { raw_ref_bytes result ≡ bytes.now }
    {
        match str::from_utf8(bytes) {
            Ok(text) => RawRef::new(text),
            Err(error) => RawRef {
                content: ContentRef::Other(OtherRef { bytes, error }),
            },
        }
    }

    /// Returns whether the bytes are UTF-8.
    pub fn is_str(&self) -> bool
        ensures { IsTrue result ↔ IsUtf8 (raw_ref_bytes self.now) }
    {
        self.as_str().is_some()
    }

    /// Returns whether the bytes aren't UTF-8.
    pub fn is_err(&self) -> bool
        ensures { IsTrue result ↔ (IsUtf8 (raw_ref_bytes self.now) → ⊥) }
    {
        !self.is_str()
    }

    /// Returns the text, if the bytes are UTF-8, borrowed for as long as what it was made of.
    pub fn as_str(&self) -> Option<&'a str>
        ensures { MatchOption result (IsUtf8 (raw_ref_bytes self.now) → ⊥)
            (λ s. (s.now ≡ raw_ref_bytes self.now) × IsUtf8 (raw_ref_bytes self.now)) }
    {
        match &self.content {
            ContentRef::Text(text) => Some(*text),
            ContentRef::Other(_) => None,
        }
    }

    /// Returns why the bytes aren't UTF-8, if they aren't, and up to which offset they are.
    pub fn as_err(&self) -> Option<&Utf8Error>
        ensures { MatchOption result (IsUtf8 (raw_ref_bytes self.now))
            (λ e. (IsUtf8 (raw_ref_bytes self.now) → ⊥) × (valid_up_to e.now ≡ utf8_valid_len (raw_ref_bytes self.now))) }
    {
        match &self.content {
            // The call tells the proof that the bytes are UTF-8.
            ContentRef::Text(text) => {
                let _bytes = text.as_bytes();
                None
            }
            ContentRef::Other(other) => Some(&other.error),
        }
    }

    /// Returns the bytes, borrowed for as long as what they were made of.
    pub fn as_bytes(&self) -> &'a [u8]
        ensures { result.now ≡ raw_ref_bytes self.now }
    {
        match &self.content {
            ContentRef::Text(text) => text.as_bytes(),
            ContentRef::Other(other) => other.bytes,
        }
    }
}

impl PartialEq for RawRef<'_> {
    ghost eq = { λ a b. bytes_eq (raw_ref_bytes a) (raw_ref_bytes b) };

    ghost laws = { on_per raw_ref_bytes (partial_equiv_from_equiv nat_list_eq_equiv) };

    fn eq(&self, other: &RawRef<'_>) -> bool
        ensures value { result ≡ bytes_eq (raw_ref_bytes self.now) (raw_ref_bytes other.now) }
        ensures equal { IsTrue result ↔ (raw_ref_bytes self.now ≡ raw_ref_bytes other.now) }
    {
        self.as_bytes() == other.as_bytes()
    }
}

impl Serialize for RawRef<'_> {
    ghost data_of = { λ v _. Some (raw_data (raw_ref_bytes v)) };

    ghost is_value = { λ _. Unit {0} };

    ghost takes_memory = { λ _. false };

    ghost refuses = { λ v. OfLength (2 ^ 32 ≤ length (raw_ref_bytes v)) };

    ghost marks = { λ _ _. AtItem };

    fn serialize<W: Sink, C: SerializerConfig>(
        &self,
        se: &mut Serializer<W, C>,
    ) -> Result<(), rmp_encode::Error>
        ensures writes { WritesTree W.Sink (false || W.takes_memory) (tree_of (settings_of se.old) (Some (raw_data (raw_ref_bytes self.now))))
            (sink_of se.old) (sink_of se.new) result }
        ensures marker { NoneAtMarker W.Sink (sink_of se.old) (sink_of se.new) result }
        ensures keeps { Keeps W.Sink se.old se.new }
        ensures error { IfErr result (OfLength (2 ^ 32 ≤ length (raw_ref_bytes self.now))) }
        ensures long { 2 ^ 32 ≤ length (raw_ref_bytes self.now) → RefusesLength se.old se.new result }
        ensures value { OnOk result (Unit {0}) }
    {
        match self.as_str() {
            Some(text) => se.serialize_str(text),
            None => se.serialize_bytes(self.as_bytes()),
        }
    }

    #[tactic(auto, using(crate::proofs::RawWriting::raw_no_byte))]
    fn as_u8(&self, _human: bool) -> Option<u8> {
        None
    }
}

impl<'de, R: ReadSlice<'de>> Deserialize<'de, R> for RawRef<'de> {
    ghost reads = { λ human lends m v. (lends ≡ true) × IsRaw m (raw_ref_bytes v) };

    ghost absent = { None };

    ghost refuses = { λ s. RefusesContent s.strict IsRawHead not_raw (not_bytes s.lends) };

    ghost takes_memory = { λ lends. if lends then false else true };

    fn deserialize<C: SerializerConfig>(de: &mut Deserializer<R, C>) -> Result<RawRef<'de>, Error> {
        match de.deserialize_bytes() {
            Ok(bytes) => Ok(RawRef::from_utf8(bytes)),
            Err(e) => Err(e),
        }
    }

    fn missing() -> Option<RawRef<'de>> {
        None
    }
}

impl<'de, R: ReadSlice<'de>> EndsInside<'de, R> for RawRef<'de> {
    ghost ends_inside = { bytes_inside };
}

impl<'de, R: ReadSlice<'de>> RoundTrip<'de, R> for RawRef<'de> {
    ghost use Rattle.std.proofs.Common.{refl};

    ghost borrows = { true };

    ghost has_data = { λ human v. refl };

    ghost round = { λ lent s v fits. raw_ref_row s (raw_ref_bytes v) R.lends (lent refl) };

    ghost same = { λ v w. raw_ref_bytes v ≡ raw_ref_bytes w };

    ghost alike = { λ human v w h. raw_alike (raw_ref_bytes v) (raw_ref_bytes w) h };

    ghost only = { λ s v fits. raw_ref_only s (λ w. raw_ref_bytes w) (raw_ref_bytes v) R.lends };
}

impl NeverNil for RawRef<'_> {
    ghost never_nil = { λ s v. raw_other s (raw_ref_bytes v) };
}
