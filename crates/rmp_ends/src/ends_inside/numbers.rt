//! Truth values, numbers, floats and unit.
ghost use Rattle.rmp_ends.specs.LeafEnds.{kind_inside, number_inside, nil_inside, signed128_inside, unsigned128_inside};

use crate::ends_inside::EndsInside;
use rmp_wire::{F32Bits, F64Bits, ReadSlice};

impl<'de, R: ReadSlice<'de>> EndsInside<'de, R> for () {
    ghost ends_inside = { nil_inside };
}

impl<'de, R: ReadSlice<'de>> EndsInside<'de, R> for bool {
    ghost ends_inside = { kind_inside };
}

impl<'de, R: ReadSlice<'de>> EndsInside<'de, R> for u8 {
    ghost ends_inside = { number_inside };
}

impl<'de, R: ReadSlice<'de>> EndsInside<'de, R> for u16 {
    ghost ends_inside = { number_inside };
}

impl<'de, R: ReadSlice<'de>> EndsInside<'de, R> for u32 {
    ghost ends_inside = { number_inside };
}

impl<'de, R: ReadSlice<'de>> EndsInside<'de, R> for u64 {
    ghost ends_inside = { number_inside };
}

impl<'de, R: ReadSlice<'de>> EndsInside<'de, R> for usize {
    ghost ends_inside = { number_inside };
}

impl<'de, R: ReadSlice<'de>> EndsInside<'de, R> for i8 {
    ghost ends_inside = { number_inside };
}

impl<'de, R: ReadSlice<'de>> EndsInside<'de, R> for i16 {
    ghost ends_inside = { number_inside };
}

impl<'de, R: ReadSlice<'de>> EndsInside<'de, R> for i32 {
    ghost ends_inside = { number_inside };
}

impl<'de, R: ReadSlice<'de>> EndsInside<'de, R> for i64 {
    ghost ends_inside = { number_inside };
}

impl<'de, R: ReadSlice<'de>> EndsInside<'de, R> for isize {
    ghost ends_inside = { number_inside };
}

impl<'de, R: ReadSlice<'de>> EndsInside<'de, R> for u128 {
    ghost ends_inside = { unsigned128_inside };
}

impl<'de, R: ReadSlice<'de>> EndsInside<'de, R> for i128 {
    ghost ends_inside = { signed128_inside };
}

impl<'de, R: ReadSlice<'de>> EndsInside<'de, R> for F32Bits {
    ghost ends_inside = { kind_inside };
}

impl<'de, R: ReadSlice<'de>> EndsInside<'de, R> for F64Bits {
    ghost ends_inside = { kind_inside };
}
