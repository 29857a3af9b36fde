//! Trees are read as they were written, and an end of their bytes is inside of a message.
ghost use Rattle.std.proofs.Common.{refl};
ghost use Rattle.std.specs.Prelude.{◌≡◌, Some};
ghost use Rattle.rmp_serde.specs.ValueData.{value_data};
ghost use Rattle.rmp_serde.specs.ValueEnds.{value_inside};
ghost use Rattle.rmp_serde.specs.ValueLowers.{value_only, value_row};

use crate::value::Value;
use rmp_ends::EndsInside;
use rmp_round_trip::RoundTrip;
use rmp_wire::ReadSlice;

impl<'de, R: ReadSlice<'de>> RoundTrip<'de, R> for Value {
    ghost has_data = { λ human v. refl };

    ghost round = { λ lent s v fits. value_row s v fits.1 };

    ghost same = { λ v w. v ≡ w };

    ghost alike = { λ human v w h i. Some (value_data (h i)) };

    ghost only = { λ s v fits. value_only s v };
}

impl<'de, R: ReadSlice<'de>> EndsInside<'de, R> for Value {
    ghost ends_inside = { value_inside };
}
