//! The length in a head, which may be cut.
ghost use Rattle.std.specs.Prelude.{◌≡◌, ◌<◌, ◌≤◌, length, take};
ghost use Rattle.rmp_scan.specs.Openings.{HasRoom, Reads};

use crate::opening::Counts;

// A length that was cut.
#[derive(Clone, Copy, Debug)]
pub(crate) struct Length {
    pub(crate) counts: Counts,
    // So many of its bytes are missing,
    pub(crate) missing: u8,
    // and those that came make this number.
    pub(crate) value: u32,
    ghost some: { 0 < missing },
    ghost room: { HasRoom missing value },
}

impl Length {
    // Reads those of its bytes that have come: how many are missing then, which number they make, and how many they are.
    pub(crate) fn read(self, bytes: &[u8]) -> (u8, u32, usize)
        ensures within { result.2 ≤ length bytes.now }
        ensures some { 0 < length bytes.now → 0 < result.2 }
        ensures fewer { result.0 ≤ self.missing }
        ensures room { HasRoom result.0 result.1 }
        ensures reads { Reads self.counts self.missing self.value (take result.2 bytes.now) result.0 result.1 }
    {
        let mut missing = self.missing;
        let mut value = self.value;
        let mut at: usize = 0;
        'bytes: while missing > 0 && at < bytes.len() {
            value = 256 * value + u32::from(bytes[at]);
            missing -= 1;
            at += 1;
        }
        (missing, value, at)
    }
}
