//! Lists in one another are read as they were written.
ghost use Rattle.test_recursive.specs.NestedRounds.{SameNested, nested_only, nested_other, nested_round, nested_some};

use crate::recursive::Nested;
use rmp_round_trip::{NeverNil, RoundTrip};
use rmp_wire::ReadSlice;

impl<'de, R: ReadSlice<'de>> RoundTrip<'de, R> for Nested {
    ghost has_data = { λ human v. nested_some v };

    ghost round = { λ lent s v fits. nested_round s v };

    ghost same = { SameNested };

    ghost alike = { λ human v w h. h };

    ghost only = { λ s v fits. nested_only s v };
}

impl NeverNil for Nested {
    ghost never_nil = { λ s v. nested_other s v };
}
