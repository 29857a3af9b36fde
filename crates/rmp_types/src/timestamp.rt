//! Points in time.
#![tactic(auto, unfolding(rmp_encode::specs::Data::lower), using(rmp_encode::proofs::Parts::part_memory))]

ghost use Rattle.std.specs.Prelude.{◌≡◌, ◌≤◌, ◌<◌, ◌^◌, None, Some, false, IfErr, IfOk, MatchOption, FitsSigned, length};
ghost use Rattle.std.specs.Int.{w64};
ghost use Rattle.rmp_wire.specs.declared.head.Head.TheVariants as heads;
ghost use Rattle.rmp_wire.specs.declared.marker.Marker.{Marker};
ghost use Rattle.rmp_encode.specs.Data.{extension};
ghost use Rattle.rmp_encode.specs.Refusals.{OfLength};
ghost use Rattle.rmp_encode.specs.Writes.{AtItem};
ghost use Rattle.rmp_decode.specs.Content.{RefusesContent};
ghost use Rattle.rmp_types.specs.Payloads.{IsTimeLen, time_payload};
ghost use Rattle.rmp_types.specs.Timestamps.{IsTime, IsTimeHead, IsTimestamp, SaysTooMany, TellsTooMany, not_time, time_tag, too_many};

mod payload;
mod round_trip;

use payload::{parts, written};
use rmp_decode::{Deserialize, Deserializer, Error, Slices, Text};
use rmp_encode::{Serialize, Serializer};
use rmp_wire::config::SerializerConfig;
use rmp_wire::{Head, ReadSlice, Sink};

// The type of the extension.
const TYPE: i8 = -1;

// The largest number of nanoseconds.
const MOST: u32 = 999_999_999;

/// A point in time, which is the extension of type -1 that the MessagePack specification has for it.
///
/// It is read from 4, 8 or 12 bytes, and written in the fewest that hold it: in 4 the seconds from 1970 to 2106 without
/// nanoseconds, in 8 the seconds to 2514, and in 12 any. An earlier point in time is less than a later one.
///
/// # Examples
/// ```
/// use rmp_serde::{Timestamp, from_slice, to_vec};
///
/// let time = Timestamp::new(1, 500_000_000).unwrap();
/// let bytes = to_vec(alloc, &time)?;
/// assert_eq!(rt; bytes.as_slice(), b"\xd7\xff\x77\x35\x94\x00\x00\x00\x00\x01".as_slice());
/// let same: Timestamp = from_slice(alloc, &bytes)?;
/// assert_eq!(rt; same.seconds, 1);
/// assert_eq!(rt; same.nanoseconds, 500_000_000);
/// ```
#[derive(Clone, Copy, Debug, PartialEq, Eq, PartialOrd, Ord)]
pub struct Timestamp {
    /// The seconds since the beginning of 1970 in UTC, without leap seconds. They are negative before it.
    pub seconds: i64,
    /// The nanoseconds after those seconds: at most 999,999,999.
    pub nanoseconds: u32,
    pub ghost within: { nanoseconds ≤ 999999999 },
}

impl Timestamp {
    /// Makes a point in time. Returns `None` for nanoseconds above 999,999,999.
    ///
    /// # Examples
    /// ```
    /// use rmp_serde::Timestamp;
    ///
    /// // half a second before 1970
    /// let before = Timestamp::new(-1, 500_000_000).unwrap();
    /// assert!(rt; before < Timestamp::new(0, 0).unwrap());
    /// assert!(rt; Timestamp::new(0, 1_000_000_000).is_none());
    /// ```
    pub fn new(seconds: i64, nanoseconds: u32) -> Option<Timestamp>
        ensures { MatchOption result (999999999 < nanoseconds)
            (λ t. (nanoseconds ≤ 999999999) × (t.seconds ≡ seconds) × (t.nanoseconds ≡ nanoseconds)) }
    {
        if nanoseconds > MOST {
            return None;
        }
        Some(Timestamp {
            seconds,
            nanoseconds,
        })
    }
}

// The length of the payload of a point in time, by its head.
fn payload_len(head: Head) -> Result<u32, Error>
    ensures ok { IfOk result (λ n. (head ≡ heads.Ext n time_tag) × IsTimeLen n) }
    ensures other { IfErr result (λ e. IsTimeHead head → ⊥) }
    ensures err { IfErr result (λ e. (m : Marker) → e ≡ not_time m head) }
{
    match head {
        Head::Ext(len, tag) => {
            if tag != TYPE {
                Err(Error::Syntax(Text::InvalidType))
            } else if len == 4 || len == 8 || len == 12 {
                Ok(len)
            } else {
                Err(Error::Syntax(Text::InvalidLength))
            }
        }
        _ => Err(Error::Syntax(Text::InvalidType)),
    }
}

// The point in time that a payload of one of its lengths says.
fn from_payload(payload: &[u8]) -> Result<Timestamp, Error>
    requires { IsTimeLen (length payload.now) }
    ensures ok { IfOk result (λ t. IsTime payload.now t.seconds t.nanoseconds) }
    ensures err { IfErr result (λ e. SaysTooMany payload.now × TellsTooMany e) }
{
    let (seconds, nanoseconds) = parts(payload);
    match Timestamp::new(seconds, nanoseconds) {
        Some(time) => Ok(time),
        None => Err(Error::Syntax(Text::new("nanoseconds above 999999999"))),
    }
}

impl Serialize for Timestamp {
    ghost data_of = { λ v _. Some (extension time_tag (time_payload v.seconds v.nanoseconds)) };

    ghost is_value = { λ v. FitsSigned w64 v.seconds × (v.nanoseconds ≤ 999999999) };

    ghost takes_memory = { λ _. false };

    ghost refuses = { λ v. OfLength (2 ^ 32 ≤ length (time_payload v.seconds v.nanoseconds)) };

    ghost marks = { λ _ _. AtItem };

    fn serialize<W: Sink, C: SerializerConfig>(
        &self,
        se: &mut Serializer<W, C>,
    ) -> Result<(), rmp_encode::Error> {
        let payload = written(self.seconds, self.nanoseconds);
        se.serialize_ext(TYPE, payload.as_slice())
    }

    #[inline(always)]
    fn as_u8(&self, _human: bool) -> Option<u8> {
        None
    }
}

impl<'de, R: ReadSlice<'de>> Deserialize<'de, R> for Timestamp {
    ghost reads = { λ human lends m t. IsTimestamp m t.seconds t.nanoseconds };

    ghost absent = { None };

    ghost refuses = { λ s. RefusesContent s.strict IsTimeHead not_time too_many };

    fn deserialize<C: SerializerConfig>(de: &mut Deserializer<R, C>) -> Result<Timestamp, Error> {
        let head = match de.deserialize_head() {
            Ok(head) => head,
            Err(e) => return Err(e),
        };
        let len = match payload_len(head) {
            Ok(len) => len,
            Err(e) => return Err(de.refuse(e)),
        };
        let mut payload = Vec::new(de.alloc());
        match de.append_content::<Slices<'de>>(len, &mut payload) {
            Ok(()) => {}
            Err(e) => return Err(e),
        }
        match from_payload(&payload) {
            Ok(time) => Ok(time),
            Err(e) => Err(de.refuse(e)),
        }
    }

    fn missing() -> Option<Timestamp> {
        None
    }
}
