//! Vectors, queues, sets and arrays.
ghost use Rattle.rmp_ends.specs.RowEnds.{array_inside, each_inside};

use crate::ends_inside::EndsInside;
use rmp_wire::ReadSlice;
use std::collections::{BTreeSet, VecDeque};

impl<'de, R: ReadSlice<'de>, T: EndsInside<'de, R>> EndsInside<'de, R> for Vec<T> {
    ghost ends_inside = { each_inside T.reads T.refuses T.ends_inside };
}

impl<'de, R: ReadSlice<'de>, T: EndsInside<'de, R>> EndsInside<'de, R> for VecDeque<T> {
    ghost ends_inside = { each_inside T.reads T.refuses T.ends_inside };
}

impl<'de, R: ReadSlice<'de>, T: EndsInside<'de, R> + Ord> EndsInside<'de, R> for BTreeSet<T> {
    ghost ends_inside = { each_inside T.reads T.refuses T.ends_inside };
}

impl<'de, R: ReadSlice<'de>, T: EndsInside<'de, R>, const N: usize> EndsInside<'de, R> for [T; N] {
    ghost ends_inside = { array_inside _ N T.reads T.refuses T.ends_inside };
}
