//! Characters, texts, bytes and extensions.
ghost use Rattle.rmp_ends.specs.BufferEnds.{buffer_inside};
ghost use Rattle.rmp_ends.specs.LeafEnds.{char_inside, string_inside, str_inside, bytes_inside, ext_inside};

use crate::ends_inside::EndsInside;
use rmp_wire::{ByteBuf, Bytes, Ext, ReadSlice};

impl<'de, R: ReadSlice<'de>> EndsInside<'de, R> for char {
    ghost ends_inside = { char_inside };
}

impl<'de, R: ReadSlice<'de>> EndsInside<'de, R> for String {
    ghost ends_inside = { string_inside };
}

impl<'de, R: ReadSlice<'de>> EndsInside<'de, R> for &'de str {
    ghost ends_inside = { str_inside };
}

impl<'de, R: ReadSlice<'de>> EndsInside<'de, R> for &'de [u8] {
    ghost ends_inside = { bytes_inside };
}

impl<'de, R: ReadSlice<'de>> EndsInside<'de, R> for Bytes<'de> {
    ghost ends_inside = { bytes_inside };
}

impl<'de, R: ReadSlice<'de>> EndsInside<'de, R> for Ext {
    ghost ends_inside = { ext_inside };
}

impl<'de, R: ReadSlice<'de>> EndsInside<'de, R> for ByteBuf {
    ghost ends_inside = { buffer_inside };
}
