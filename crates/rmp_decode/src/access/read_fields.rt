//! Reads of 2 to 12 fields, whose contracts name each field's part in one list. Written by tools/tuples.py.
ghost use Rattle.std.specs.Option.{is_none};
ghost use Rattle.std.specs.Prelude.{◌≡◌, ◌∷◌, [], length};
ghost use Rattle.rmp_decode.specs.FieldRefusing.{RefusesFields};
ghost use Rattle.rmp_decode.specs.Fields.{OfFields};
ghost use Rattle.rmp_decode.specs.Law.{Lawful};
ghost use Rattle.rmp_decode.specs.Names.{bytes_of};
ghost use Rattle.rmp_decode.specs.Refusing.{RefusesAs, part_of};
ghost use Rattle.rmp_decode.specs.ReadFields.{reads_2, reads_3, reads_4, reads_5, reads_6, reads_7, reads_8, reads_9};
ghost use Rattle.rmp_decode.specs.ReadFields.{reads_10, reads_11, reads_12};

use crate::de::Deserialize;
use crate::deserializer::Deserializer;
use crate::error::Error;
use rmp_wire::ReadSlice;
use rmp_wire::config::SerializerConfig;

/// Reads 2 fields by their names, as `Deserializer::deserialize_fields` does.
///
/// # Errors
/// Those of `Deserializer::deserialize_fields`.
#[inline(always)]
pub fn read_fields_2<
    'de,
    R: ReadSlice<'de>,
    C: SerializerConfig,
    P0: Deserialize<'de, R>,
    P1: Deserialize<'de, R>,
>(de: &mut Deserializer<R, C>, names: &[&str]) -> Result<(P0, (P1, ())), Error>
    requires count { length names.now ≡ 2 }
    ensures law { Lawful R.Source (λ m v. OfFields (bytes_of names.now) (λ fs. reads_2 P0.reads P0.absent P1.reads P1.absent C.human R.lends fs v) m) de.old
        de.new result }
    ensures refused { RefusesAs R.Source C.human R.lends
        (RefusesFields (bytes_of names.now) (is_none P0.absent ∷ (is_none P1.absent ∷ []))
        (part_of P0.reads P0.refuses ∷ (part_of P1.reads P1.refuses ∷ []))) de.old de.new result }
{
    de.deserialize_fields::<(P0, (P1, ()))>(names)
}

/// Reads 3 fields by their names, as `Deserializer::deserialize_fields` does.
///
/// # Errors
/// Those of `Deserializer::deserialize_fields`.
#[inline(always)]
pub fn read_fields_3<
    'de,
    R: ReadSlice<'de>,
    C: SerializerConfig,
    P0: Deserialize<'de, R>,
    P1: Deserialize<'de, R>,
    P2: Deserialize<'de, R>,
>(de: &mut Deserializer<R, C>, names: &[&str]) -> Result<(P0, (P1, (P2, ()))), Error>
    requires count { length names.now ≡ 3 }
    ensures law { Lawful R.Source (λ m v. OfFields (bytes_of names.now)
        (λ fs. reads_3 P0.reads P0.absent P1.reads P1.absent P2.reads P2.absent C.human R.lends fs v) m) de.old de.new result }
    ensures refused { RefusesAs R.Source C.human R.lends
        (RefusesFields (bytes_of names.now) (is_none P0.absent ∷ (is_none P1.absent ∷ (is_none P2.absent ∷ [])))
        (part_of P0.reads P0.refuses ∷ (part_of P1.reads P1.refuses ∷ (part_of P2.reads P2.refuses ∷ [])))) de.old de.new result }
{
    de.deserialize_fields::<(P0, (P1, (P2, ())))>(names)
}

/// Reads 4 fields by their names, as `Deserializer::deserialize_fields` does.
///
/// # Errors
/// Those of `Deserializer::deserialize_fields`.
#[inline(always)]
pub fn read_fields_4<
    'de,
    R: ReadSlice<'de>,
    C: SerializerConfig,
    P0: Deserialize<'de, R>,
    P1: Deserialize<'de, R>,
    P2: Deserialize<'de, R>,
    P3: Deserialize<'de, R>,
>(de: &mut Deserializer<R, C>, names: &[&str]) -> Result<(P0, P1, P2, P3, ()), Error>
    requires count { length names.now ≡ 4 }
    ensures law { Lawful R.Source (λ m v. OfFields (bytes_of names.now)
        (λ fs. reads_4 P0.reads P0.absent P1.reads P1.absent P2.reads P2.absent P3.reads P3.absent C.human R.lends fs v) m) de.old de.new result }
    ensures refused { RefusesAs R.Source C.human R.lends
        (RefusesFields (bytes_of names.now) (is_none P0.absent ∷ (is_none P1.absent ∷ (is_none P2.absent ∷ (is_none P3.absent ∷ []))))
        (part_of P0.reads P0.refuses ∷ (part_of P1.reads P1.refuses ∷ (part_of P2.reads P2.refuses ∷ (part_of P3.reads P3.refuses ∷ []))))) de.old de.new
        result }
{
    de.deserialize_fields::<(P0, P1, P2, P3, ())>(names)
}

/// Reads 5 fields by their names, as `Deserializer::deserialize_fields` does.
///
/// # Errors
/// Those of `Deserializer::deserialize_fields`.
#[inline(always)]
pub fn read_fields_5<
    'de,
    R: ReadSlice<'de>,
    C: SerializerConfig,
    P0: Deserialize<'de, R>,
    P1: Deserialize<'de, R>,
    P2: Deserialize<'de, R>,
    P3: Deserialize<'de, R>,
    P4: Deserialize<'de, R>,
>(de: &mut Deserializer<R, C>, names: &[&str]) -> Result<(P0, P1, P2, P3, (P4, ())), Error>
    requires count { length names.now ≡ 5 }
    ensures law { Lawful R.Source (λ m v. OfFields (bytes_of names.now)
        (λ fs. reads_5 P0.reads P0.absent P1.reads P1.absent P2.reads P2.absent P3.reads P3.absent P4.reads P4.absent C.human R.lends fs v) m) de.old de.new
        result }
    ensures refused { RefusesAs R.Source C.human R.lends
        (RefusesFields (bytes_of names.now) (is_none P0.absent ∷ (is_none P1.absent ∷ (is_none P2.absent ∷ (is_none P3.absent ∷ (is_none P4.absent ∷ [])))))
        (part_of P0.reads P0.refuses ∷ (part_of P1.reads P1.refuses
        ∷ (part_of P2.reads P2.refuses ∷ (part_of P3.reads P3.refuses ∷ (part_of P4.reads P4.refuses ∷ [])))))) de.old de.new result }
{
    de.deserialize_fields::<(P0, P1, P2, P3, (P4, ()))>(names)
}

/// Reads 6 fields by their names, as `Deserializer::deserialize_fields` does.
///
/// # Errors
/// Those of `Deserializer::deserialize_fields`.
#[inline(always)]
pub fn read_fields_6<
    'de,
    R: ReadSlice<'de>,
    C: SerializerConfig,
    P0: Deserialize<'de, R>,
    P1: Deserialize<'de, R>,
    P2: Deserialize<'de, R>,
    P3: Deserialize<'de, R>,
    P4: Deserialize<'de, R>,
    P5: Deserialize<'de, R>,
>(de: &mut Deserializer<R, C>, names: &[&str]) -> Result<(P0, P1, P2, P3, (P4, (P5, ()))), Error>
    requires count { length names.now ≡ 6 }
    ensures law { Lawful R.Source (λ m v. OfFields (bytes_of names.now)
        (λ fs. reads_6 P0.reads P0.absent P1.reads P1.absent P2.reads P2.absent P3.reads P3.absent P4.reads P4.absent P5.reads P5.absent C.human R.lends fs
        v) m) de.old de.new result }
    ensures refused { RefusesAs R.Source C.human R.lends
        (RefusesFields (bytes_of names.now) (is_none P0.absent
        ∷ (is_none P1.absent ∷ (is_none P2.absent ∷ (is_none P3.absent ∷ (is_none P4.absent ∷ (is_none P5.absent ∷ []))))))
        (part_of P0.reads P0.refuses ∷ (part_of P1.reads P1.refuses
        ∷ (part_of P2.reads P2.refuses ∷ (part_of P3.reads P3.refuses ∷ (part_of P4.reads P4.refuses ∷ (part_of P5.reads P5.refuses ∷ []))))))) de.old
        de.new result }
{
    de.deserialize_fields::<(P0, P1, P2, P3, (P4, (P5, ())))>(names)
}

/// Reads 7 fields by their names, as `Deserializer::deserialize_fields` does.
///
/// # Errors
/// Those of `Deserializer::deserialize_fields`.
#[inline(always)]
pub fn read_fields_7<
    'de,
    R: ReadSlice<'de>,
    C: SerializerConfig,
    P0: Deserialize<'de, R>,
    P1: Deserialize<'de, R>,
    P2: Deserialize<'de, R>,
    P3: Deserialize<'de, R>,
    P4: Deserialize<'de, R>,
    P5: Deserialize<'de, R>,
    P6: Deserialize<'de, R>,
>(
    de: &mut Deserializer<R, C>,
    names: &[&str],
) -> Result<(P0, P1, P2, P3, (P4, (P5, (P6, ())))), Error>
    requires count { length names.now ≡ 7 }
    ensures law { Lawful R.Source (λ m v. OfFields (bytes_of names.now)
        (λ fs. reads_7 P0.reads P0.absent P1.reads P1.absent P2.reads P2.absent P3.reads P3.absent P4.reads P4.absent P5.reads P5.absent P6.reads P6.absent
        C.human R.lends fs v) m) de.old de.new result }
    ensures refused { RefusesAs R.Source C.human R.lends
        (RefusesFields (bytes_of names.now) (is_none P0.absent
        ∷ (is_none P1.absent ∷ (is_none P2.absent ∷ (is_none P3.absent ∷ (is_none P4.absent ∷ (is_none P5.absent ∷ (is_none P6.absent ∷ [])))))))
        (part_of P0.reads P0.refuses ∷ (part_of P1.reads P1.refuses
        ∷ (part_of P2.reads P2.refuses ∷ (part_of P3.reads P3.refuses
        ∷ (part_of P4.reads P4.refuses ∷ (part_of P5.reads P5.refuses ∷ (part_of P6.reads P6.refuses ∷ [])))))))) de.old de.new result }
{
    de.deserialize_fields::<(P0, P1, P2, P3, (P4, (P5, (P6, ()))))>(names)
}

/// Reads 8 fields by their names, as `Deserializer::deserialize_fields` does.
///
/// # Errors
/// Those of `Deserializer::deserialize_fields`.
#[inline(always)]
pub fn read_fields_8<
    'de,
    R: ReadSlice<'de>,
    C: SerializerConfig,
    P0: Deserialize<'de, R>,
    P1: Deserialize<'de, R>,
    P2: Deserialize<'de, R>,
    P3: Deserialize<'de, R>,
    P4: Deserialize<'de, R>,
    P5: Deserialize<'de, R>,
    P6: Deserialize<'de, R>,
    P7: Deserialize<'de, R>,
>(
    de: &mut Deserializer<R, C>,
    names: &[&str],
) -> Result<(P0, P1, P2, P3, (P4, P5, P6, P7, ())), Error>
    requires count { length names.now ≡ 8 }
    ensures law { Lawful R.Source (λ m v. OfFields (bytes_of names.now)
        (λ fs. reads_8 P0.reads P0.absent P1.reads P1.absent P2.reads P2.absent P3.reads P3.absent P4.reads P4.absent P5.reads P5.absent P6.reads P6.absent
        P7.reads P7.absent C.human R.lends fs v) m) de.old de.new result }
    ensures refused { RefusesAs R.Source C.human R.lends
        (RefusesFields (bytes_of names.now) (is_none P0.absent
        ∷ (is_none P1.absent ∷ (is_none P2.absent ∷ (is_none P3.absent
        ∷ (is_none P4.absent ∷ (is_none P5.absent ∷ (is_none P6.absent ∷ (is_none P7.absent ∷ []))))))))
        (part_of P0.reads P0.refuses ∷ (part_of P1.reads P1.refuses
        ∷ (part_of P2.reads P2.refuses ∷ (part_of P3.reads P3.refuses
        ∷ (part_of P4.reads P4.refuses ∷ (part_of P5.reads P5.refuses ∷ (part_of P6.reads P6.refuses ∷ (part_of P7.reads P7.refuses ∷ []))))))))) de.old
        de.new result }
{
    de.deserialize_fields::<(P0, P1, P2, P3, (P4, P5, P6, P7, ()))>(names)
}

/// Reads 9 fields by their names, as `Deserializer::deserialize_fields` does.
///
/// # Errors
/// Those of `Deserializer::deserialize_fields`.
#[inline(always)]
pub fn read_fields_9<
    'de,
    R: ReadSlice<'de>,
    C: SerializerConfig,
    P0: Deserialize<'de, R>,
    P1: Deserialize<'de, R>,
    P2: Deserialize<'de, R>,
    P3: Deserialize<'de, R>,
    P4: Deserialize<'de, R>,
    P5: Deserialize<'de, R>,
    P6: Deserialize<'de, R>,
    P7: Deserialize<'de, R>,
    P8: Deserialize<'de, R>,
>(
    de: &mut Deserializer<R, C>,
    names: &[&str],
) -> Result<(P0, P1, P2, P3, (P4, P5, P6, P7, (P8, ()))), Error>
    requires count { length names.now ≡ 9 }
    ensures law { Lawful R.Source (λ m v. OfFields (bytes_of names.now)
        (λ fs. reads_9 P0.reads P0.absent P1.reads P1.absent P2.reads P2.absent P3.reads P3.absent P4.reads P4.absent P5.reads P5.absent P6.reads P6.absent
        P7.reads P7.absent P8.reads P8.absent C.human R.lends fs v) m) de.old de.new result }
    ensures refused { RefusesAs R.Source C.human R.lends
        (RefusesFields (bytes_of names.now) (is_none P0.absent
        ∷ (is_none P1.absent ∷ (is_none P2.absent ∷ (is_none P3.absent
        ∷ (is_none P4.absent ∷ (is_none P5.absent ∷ (is_none P6.absent ∷ (is_none P7.absent ∷ (is_none P8.absent ∷ [])))))))))
        (part_of P0.reads P0.refuses ∷ (part_of P1.reads P1.refuses
        ∷ (part_of P2.reads P2.refuses ∷ (part_of P3.reads P3.refuses
        ∷ (part_of P4.reads P4.refuses ∷ (part_of P5.reads P5.refuses
        ∷ (part_of P6.reads P6.refuses ∷ (part_of P7.reads P7.refuses ∷ (part_of P8.reads P8.refuses ∷ [])))))))))) de.old de.new result }
{
    de.deserialize_fields::<(P0, P1, P2, P3, (P4, P5, P6, P7, (P8, ())))>(names)
}

/// Reads 10 fields by their names, as `Deserializer::deserialize_fields` does.
///
/// # Errors
/// Those of `Deserializer::deserialize_fields`.
#[inline(always)]
pub fn read_fields_10<
    'de,
    R: ReadSlice<'de>,
    C: SerializerConfig,
    P0: Deserialize<'de, R>,
    P1: Deserialize<'de, R>,
    P2: Deserialize<'de, R>,
    P3: Deserialize<'de, R>,
    P4: Deserialize<'de, R>,
    P5: Deserialize<'de, R>,
    P6: Deserialize<'de, R>,
    P7: Deserialize<'de, R>,
    P8: Deserialize<'de, R>,
    P9: Deserialize<'de, R>,
>(
    de: &mut Deserializer<R, C>,
    names: &[&str],
) -> Result<(P0, P1, P2, P3, (P4, P5, P6, P7, (P8, (P9, ())))), Error>
    requires count { length names.now ≡ 10 }
    ensures law { Lawful R.Source (λ m v. OfFields (bytes_of names.now)
        (λ fs. reads_10 P0.reads P0.absent P1.reads P1.absent P2.reads P2.absent P3.reads P3.absent P4.reads P4.absent P5.reads P5.absent P6.reads P6.absent
        P7.reads P7.absent P8.reads P8.absent P9.reads P9.absent C.human R.lends fs v) m) de.old de.new result }
    ensures refused { RefusesAs R.Source C.human R.lends
        (RefusesFields (bytes_of names.now) (is_none P0.absent
        ∷ (is_none P1.absent ∷ (is_none P2.absent ∷ (is_none P3.absent
        ∷ (is_none P4.absent ∷ (is_none P5.absent ∷ (is_none P6.absent ∷ (is_none P7.absent ∷ (is_none P8.absent ∷ (is_none P9.absent ∷ []))))))))))
        (part_of P0.reads P0.refuses ∷ (part_of P1.reads P1.refuses
        ∷ (part_of P2.reads P2.refuses ∷ (part_of P3.reads P3.refuses
        ∷ (part_of P4.reads P4.refuses ∷ (part_of P5.reads P5.refuses
        ∷ (part_of P6.reads P6.refuses ∷ (part_of P7.reads P7.refuses ∷ (part_of P8.reads P8.refuses ∷ (part_of P9.reads P9.refuses ∷ []))))))))))) de.old
        de.new result }
{
    de.deserialize_fields::<(P0, P1, P2, P3, (P4, P5, P6, P7, (P8, (P9, ()))))>(names)
}

/// Reads 11 fields by their names, as `Deserializer::deserialize_fields` does.
///
/// # Errors
/// Those of `Deserializer::deserialize_fields`.
#[inline(always)]
pub fn read_fields_11<
    'de,
    R: ReadSlice<'de>,
    C: SerializerConfig,
    P0: Deserialize<'de, R>,
    P1: Deserialize<'de, R>,
    P2: Deserialize<'de, R>,
    P3: Deserialize<'de, R>,
    P4: Deserialize<'de, R>,
    P5: Deserialize<'de, R>,
    P6: Deserialize<'de, R>,
    P7: Deserialize<'de, R>,
    P8: Deserialize<'de, R>,
    P9: Deserialize<'de, R>,
    P10: Deserialize<'de, R>,
>(
    de: &mut Deserializer<R, C>,
    names: &[&str],
) -> Result<(P0, P1, P2, P3, (P4, P5, P6, P7, (P8, (P9, (P10, ()))))), Error>
    requires count { length names.now ≡ 11 }
    ensures law { Lawful R.Source (λ m v. OfFields (bytes_of names.now)
        (λ fs. reads_11 P0.reads P0.absent P1.reads P1.absent P2.reads P2.absent P3.reads P3.absent P4.reads P4.absent P5.reads P5.absent P6.reads P6.absent
        P7.reads P7.absent P8.reads P8.absent P9.reads P9.absent P10.reads P10.absent C.human R.lends fs v) m) de.old de.new result }
    ensures refused { RefusesAs R.Source C.human R.lends
        (RefusesFields (bytes_of names.now) (is_none P0.absent
        ∷ (is_none P1.absent ∷ (is_none P2.absent ∷ (is_none P3.absent
        ∷ (is_none P4.absent ∷ (is_none P5.absent ∷ (is_none P6.absent
        ∷ (is_none P7.absent ∷ (is_none P8.absent ∷ (is_none P9.absent ∷ (is_none P10.absent ∷ [])))))))))))
        (part_of P0.reads P0.refuses ∷ (part_of P1.reads P1.refuses
        ∷ (part_of P2.reads P2.refuses ∷ (part_of P3.reads P3.refuses
        ∷ (part_of P4.reads P4.refuses ∷ (part_of P5.reads P5.refuses
        ∷ (part_of P6.reads P6.refuses ∷ (part_of P7.reads P7.refuses
        ∷ (part_of P8.reads P8.refuses ∷ (part_of P9.reads P9.refuses ∷ (part_of P10.reads P10.refuses ∷ [])))))))))))) de.old de.new result }
{
    de.deserialize_fields::<(P0, P1, P2, P3, (P4, P5, P6, P7, (P8, (P9, (P10, ())))))>(names)
}

/// Reads 12 fields by their names, as `Deserializer::deserialize_fields` does.
///
/// # Errors
/// Those of `Deserializer::deserialize_fields`.
#[inline(always)]
pub fn read_fields_12<
    'de,
    R: ReadSlice<'de>,
    C: SerializerConfig,
    P0: Deserialize<'de, R>,
    P1: Deserialize<'de, R>,
    P2: Deserialize<'de, R>,
    P3: Deserialize<'de, R>,
    P4: Deserialize<'de, R>,
    P5: Deserialize<'de, R>,
    P6: Deserialize<'de, R>,
    P7: Deserialize<'de, R>,
    P8: Deserialize<'de, R>,
    P9: Deserialize<'de, R>,
    P10: Deserialize<'de, R>,
    P11: Deserialize<'de, R>,
>(
    de: &mut Deserializer<R, C>,
    names: &[&str],
) -> Result<(P0, P1, P2, P3, (P4, P5, P6, P7, (P8, P9, P10, P11, ()))), Error>
    requires count { length names.now ≡ 12 }
    ensures law { Lawful R.Source (λ m v. OfFields (bytes_of names.now)
        (λ fs. reads_12 P0.reads P0.absent P1.reads P1.absent P2.reads P2.absent P3.reads P3.absent P4.reads P4.absent P5.reads P5.absent P6.reads P6.absent
        P7.reads P7.absent P8.reads P8.absent P9.reads P9.absent P10.reads P10.absent P11.reads P11.absent C.human R.lends fs v) m) de.old de.new result }
    ensures refused { RefusesAs R.Source C.human R.lends
        (RefusesFields (bytes_of names.now) (is_none P0.absent
        ∷ (is_none P1.absent ∷ (is_none P2.absent ∷ (is_none P3.absent
        ∷ (is_none P4.absent ∷ (is_none P5.absent ∷ (is_none P6.absent
        ∷ (is_none P7.absent ∷ (is_none P8.absent ∷ (is_none P9.absent ∷ (is_none P10.absent ∷ (is_none P11.absent ∷ []))))))))))))
        (part_of P0.reads P0.refuses ∷ (part_of P1.reads P1.refuses
        ∷ (part_of P2.reads P2.refuses ∷ (part_of P3.reads P3.refuses
        ∷ (part_of P4.reads P4.refuses ∷ (part_of P5.reads P5.refuses
        ∷ (part_of P6.reads P6.refuses ∷ (part_of P7.reads P7.refuses
        ∷ (part_of P8.reads P8.refuses ∷ (part_of P9.reads P9.refuses ∷ (part_of P10.reads P10.refuses ∷ (part_of P11.reads P11.refuses ∷ [])))))))))))))
        de.old de.new result }
{
    de.deserialize_fields::<(P0, P1, P2, P3, (P4, P5, P6, P7, (P8, P9, P10, P11, ())))>(names)
}
