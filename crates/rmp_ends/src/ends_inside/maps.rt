//! Maps.
ghost use Rattle.rmp_ends.specs.MapEnds.{map_inside};

use crate::ends_inside::EndsInside;
use rmp_wire::ReadSlice;
use std::collections::BTreeMap;

impl<'de, R: ReadSlice<'de>, K: EndsInside<'de, R> + Ord, V: EndsInside<'de, R>> EndsInside<'de, R>
    for BTreeMap<K, V> {
    ghost ends_inside = { map_inside K.reads V.reads K.refuses V.refuses K.ends_inside V.ends_inside };
}
