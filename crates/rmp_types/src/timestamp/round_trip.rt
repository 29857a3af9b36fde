//! Points in time are read as they were written, and an end of their bytes is inside of a message.
ghost use Rattle.std.proofs.Common.{refl};
ghost use Rattle.std.specs.Cmp.{int_cmp_total, nat_cmp_total};
ghost use Rattle.std.specs.Ordering.{int_cmp, nat_cmp};
ghost use Rattle.std.specs.Prelude.{◌≡◌};
ghost use Rattle.rmp_round_trip.specs.AlikeOrder.{then_tied, tied};
ghost use Rattle.rmp_round_trip.specs.LeafRounds.{extension_other};
ghost use Rattle.rmp_types.specs.Payloads.{time_payload};
ghost use Rattle.rmp_types.specs.TimestampRounds.{time_alike, time_inside, time_only, time_row};
ghost use Rattle.rmp_types.specs.Timestamps.{time_tag};

use crate::timestamp::Timestamp;
use rmp_ends::EndsInside;
use rmp_round_trip::{ContentOrd, NeverNil, RoundTrip};
use rmp_wire::ReadSlice;

impl<'de, R: ReadSlice<'de>> RoundTrip<'de, R> for Timestamp {
    ghost has_data = { λ human v. refl };

    ghost round = { λ lent s v fits. time_row s v.seconds v.nanoseconds fits.0 fits.1 };

    ghost same = { λ v w. (v.seconds ≡ w.seconds) × (v.nanoseconds ≡ w.nanoseconds) };

    ghost alike = { λ human v w h. time_alike v.seconds w.seconds v.nanoseconds w.nanoseconds h };

    ghost only = { λ s v fits. time_only s v.seconds v.nanoseconds fits.0 fits.1 };
}

impl NeverNil for Timestamp {
    ghost never_nil = { λ s v. extension_other s time_tag (time_payload v.seconds v.nanoseconds) };
}

impl<'de, R: ReadSlice<'de>> ContentOrd<'de, R> for Timestamp {
    ghost equal = { λ v w h. then_tied _ _ (tied int_cmp int_cmp_total v.seconds w.seconds h.0) (tied nat_cmp nat_cmp_total v.nanoseconds w.nanoseconds h.1) };
}

impl<'de, R: ReadSlice<'de>> EndsInside<'de, R> for Timestamp {
    ghost ends_inside = { time_inside };
}
