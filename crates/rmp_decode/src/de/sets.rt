//! Sets, from lists or bytes.
ghost use Rattle.std.specs.Prelude.{◌≡◌, ◌<◌, ◌∷◌, ◌++◌, [], None, OnOk, true, false};
ghost use Rattle.std.specs.BTreeSet.{insert_key};
ghost use Rattle.std.specs.List.Sorted.{IsStrictlySortedBy};
ghost use Rattle.rmp_decode.specs.Inside.{ReadsInside};
ghost use Rattle.rmp_decode.specs.Refusing.{RefusesEach};
ghost use Rattle.rmp_decode.specs.Sets.{CollectsKeys, IsEitherPlace, ReadsKeys, keys_so_far};
ghost use Rattle.rmp_decode.specs.State.{kept_of};
ghost use Rattle.rmp_decode.specs.declared.deserializer.Kept.TheVariants.{Nothing};

use crate::de::Deserialize;
use crate::de::elements::{Row, is_small, read_row};
use crate::deserializer::Deserializer;
use crate::error::Error;
use rmp_wire::ReadSlice;
use rmp_wire::config::SerializerConfig;
use std::alloc::AllocError;
use std::cmp::Ordering;
use std::collections::BTreeSet;

/// From this many elements on, ascending keys are kept in a row before they are inserted into the set.
const MANY: u32 = 32;

impl<T: Ord + Drop> Row<T> for BTreeSet<T> {
    ghost holds = { λ s vs. CollectsKeys T.cmp vs s.keys };

    ghost most = { λ n. n };

    ghost grows = { true };

    #[inline(always)]
    fn wanted(count: u32) -> u32 {
        count
    }

    #[inline(always)]
    fn put(&mut self, item: T, _at: u32, _left: u32) -> bool {
        match self.insert(item) {
            Ok(_) => {}
            Err(_) => return false,
        }
        true
    }
}

// The keys of a large set that were read so far. `insert` searches from the front, so ascending keys are kept in a row,
// and inserted from the last to the first.
#[derive(Drop)]
struct Keys<T: Ord> {
    keys: BTreeSet<T>,
    row: Vec<T>,
    in_row: bool,
}

// Whether the key is above the keys of the row, which ascend.
fn comes_after<T: Ord + Drop>(row: &[T], key: &T) -> bool
    ensures { result ≡ true → IsStrictlySortedBy T.cmp row.now → IsStrictlySortedBy T.cmp (row.now ++ key.now ∷ []) }
{
    match row.last() {
        Some(last) => matches!(last.cmp(key), Ordering::Less),
        None => true,
    }
}

impl<T: Ord + Drop> Keys<T> {
    // Appends a key to the others.
    fn push(&mut self, key: T) -> Result<(), AllocError>
        requires ordered { IsStrictlySortedBy T.cmp (keys_so_far self.old) }
        requires differ { IsEitherPlace self.old }
        ensures keys { OnOk result (keys_so_far self.new ≡ insert_key T.cmp (keys_so_far self.old) key) }
        ensures ordered { OnOk result (IsStrictlySortedBy T.cmp (keys_so_far self.new)) }
        ensures differ { OnOk result (IsEitherPlace self.new) }
    {
        if self.in_row && comes_after(self.row.as_slice(), &key) {
            self.row.push(key)?;
            return Ok(());
        }
        self.settle()?;
        self.keys.insert(key)?;
        Ok(())
    }

    // Inserts the keys of the row into the set, from the last to the first.
    fn settle(&mut self) -> Result<(), AllocError>
        requires { IsStrictlySortedBy T.cmp (keys_so_far self.old) }
        ensures keys { OnOk result (self.new.keys.keys ≡ keys_so_far self.old) }
        ensures row { OnOk result (self.new.row.items ≡ []) }
        ensures in_set { OnOk result (self.new.in_row ≡ false) }
    {
        self.in_row = false;
        while let Some(key) = self.row.pop() {
            self.keys.insert(key)?;
        }
        Ok(())
    }
}

impl<T: Ord + Drop> Row<T> for Keys<T> {
    ghost holds = { λ s vs. CollectsKeys T.cmp vs (keys_so_far s) × IsEitherPlace s };

    ghost most = { λ n. n };

    ghost grows = { true };

    #[inline(always)]
    fn wanted(count: u32) -> u32 {
        count
    }

    #[inline(always)]
    fn put(&mut self, item: T, _at: u32, _left: u32) -> bool {
        match self.push(item) {
            Ok(()) => true,
            Err(_) => false,
        }
    }
}

// Reads `count` elements of a list, or bytes as numbers, where there are many, after the head was consumed.
#[inline(never)]
fn many_row<'de, R: ReadSlice<'de>, C: SerializerConfig, T: Deserialize<'de, R> + Ord>(
    de: &mut Deserializer<R, C>,
    bytes: bool,
    count: u32,
) -> Result<BTreeSet<T>, Error>
    requires clean { kept_of de.old ≡ Nothing }
    requires some { 0 < count }
    ensures { ReadsInside R.Source C.human R.lends (λ m v. ReadsKeys T.cmp (T.reads C.human R.lends) v.keys m) (RefusesEach T.reads T.refuses) de.old bytes count
        de.new result }
{
    let mut items = Keys {
        keys: BTreeSet::new(de.alloc()),
        row: Vec::new(de.alloc()),
        in_row: true,
    };
    match read_row(de, bytes, count, &mut items) {
        Ok(_) => match items.settle() {
            Ok(()) => Ok(items.keys),
            Err(_) => Err(de.refuse(Error::OutOfMemory)),
        },
        Err(e) => Err(e),
    }
}

// Reads `count` elements of a list, or bytes as numbers, after the head was consumed.
#[inline(always)]
fn set_row<'de, R: ReadSlice<'de>, C: SerializerConfig, T: Deserialize<'de, R> + Ord>(
    de: &mut Deserializer<R, C>,
    bytes: bool,
    count: u32,
) -> Result<BTreeSet<T>, Error>
    requires clean { kept_of de.old ≡ Nothing }
    ensures { ReadsInside R.Source C.human R.lends (λ m v. ReadsKeys T.cmp (T.reads C.human R.lends) v.keys m) (RefusesEach T.reads T.refuses) de.old bytes count
        de.new result }
{
    let mut items = BTreeSet::new(de.alloc());
    match read_row(de, bytes, count, &mut items) {
        Ok(_) => Ok(items),
        Err(e) => Err(e),
    }
}

impl<'de, R: ReadSlice<'de>, T: Deserialize<'de, R> + Ord> Deserialize<'de, R> for BTreeSet<T> {
    ghost reads = { λ human lends m v. ReadsKeys T.cmp (T.reads human lends) v.keys m };

    ghost absent = { None };

    ghost refuses = { RefusesEach T.reads T.refuses };

    fn deserialize<C: SerializerConfig>(de: &mut Deserializer<R, C>) -> Result<BTreeSet<T>, Error> {
        match de.open_row(is_small::<T>()) {
            Ok((bytes, count)) if count >= MANY => many_row(de, bytes, count),
            Ok((true, count)) => set_row(de, true, count),
            Ok((false, count)) => set_row(de, false, count),
            Err(e) => Err(e),
        }
    }

    fn missing() -> Option<BTreeSet<T>> {
        None
    }
}
