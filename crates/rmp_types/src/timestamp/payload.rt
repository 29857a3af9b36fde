//! The payload of a timestamp.
ghost use Rattle.std.specs.Prelude.{◌≡◌, ◌<◌, ◌≤◌, length};
ghost use Rattle.rmp_types.specs.Payloads.{IsTimeLen, Says, long_payload, payload_bytes, short_or_middle, time_payload};

// The bits of the seconds in a payload of 8 bytes, as the number after them.
const SECONDS: u64 = 1 << 34;

// A payload, of one of its three lengths.
#[derive(Drop)]
pub(crate) enum Payload {
    Short([u8; 4]),
    Middle([u8; 8]),
    Long([u8; 12]),
}

impl Payload {
    pub(crate) fn as_slice(&self) -> &[u8]
        ensures { result.now ≡ payload_bytes self.now }
    {
        match self {
            Payload::Short(bytes) => bytes,
            Payload::Middle(bytes) => bytes,
            Payload::Long(bytes) => bytes,
        }
    }
}

// The seconds and the nanoseconds that a payload of one of its lengths says.
pub(crate) fn parts(payload: &[u8]) -> (i64, u32)
    requires { IsTimeLen (length payload.now) }
    ensures { Says payload.now result.0 result.1 }
{
    match payload {
        [a, b, c, d] => (i64::from(u32::from_be_bytes([*a, *b, *c, *d])), 0),
        [a, b, c, d, e, f, g, h] => {
            let word = u64::from_be_bytes([*a, *b, *c, *d, *e, *f, *g, *h]);
            ((word % SECONDS) as i64, (word / SECONDS) as u32)
        }
        [i, j, k, l, a, b, c, d, e, f, g, h] => (
            i64::from_be_bytes([*a, *b, *c, *d, *e, *f, *g, *h]),
            u32::from_be_bytes([*i, *j, *k, *l]),
        ),
        _ => unreachable!(),
    }
}

// The payload that is written.
#[tactic(auto, using(crate::specs::PayloadCases::low_seconds, crate::specs::PayloadCases::high_seconds, crate::specs::PayloadCases::below_0))]
pub(crate) fn written(seconds: i64, nanoseconds: u32) -> Payload
    requires { nanoseconds ≤ 999999999 }
    ensures { payload_bytes result ≡ time_payload seconds nanoseconds }
{
    match u64::try_from(seconds) {
        Ok(low) => {
            if low < SECONDS {
                short_or_middle(low, nanoseconds)
            } else {
                long(seconds, nanoseconds)
            }
        }
        Err(_) => long(seconds, nanoseconds),
    }
}

// The payload of seconds of 34 bits.
fn short_or_middle(low: u64, nanoseconds: u32) -> Payload
    requires low { low < 17179869184 }
    requires nanoseconds { nanoseconds ≤ 999999999 }
    ensures { payload_bytes result ≡ short_or_middle low nanoseconds }
{
    let word = u64::from(nanoseconds) * SECONDS + low;
    match u32::try_from(word) {
        Ok(seconds) => Payload::Short(seconds.to_be_bytes()),
        Err(_) => Payload::Middle(word.to_be_bytes()),
    }
}

// The payload of any seconds.
fn long(seconds: i64, nanoseconds: u32) -> Payload
    ensures { payload_bytes result ≡ long_payload seconds nanoseconds }
{
    let mut bytes = [0; 12];
    bytes[..4].copy_from_slice(&nanoseconds.to_be_bytes());
    bytes[4..].copy_from_slice(&seconds.to_be_bytes());
    Payload::Long(bytes)
}
