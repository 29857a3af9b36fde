//! Options, boxes and fields with a default.
ghost use Rattle.rmp_ends.specs.RowEnds.{box_inside, option_inside};

use crate::ends_inside::EndsInside;
use rmp_decode::Defaulted;
use rmp_wire::ReadSlice;

impl<'de, R: ReadSlice<'de>, T: EndsInside<'de, R>> EndsInside<'de, R> for Option<T> {
    ghost ends_inside = { option_inside T.refuses T.ends_inside };
}

impl<'de, R: ReadSlice<'de>, T: EndsInside<'de, R>> EndsInside<'de, R> for Box<T> {
    ghost ends_inside = { box_inside T.reads T.refuses T.ends_inside };
}

impl<'de, R: ReadSlice<'de>, T: EndsInside<'de, R>> EndsInside<'de, R> for Defaulted<T> {
    ghost ends_inside = { T.ends_inside };
}
