//! One to eight elements of several types. Written by tools/tuples.py.
ghost use Rattle.std.specs.Prelude.{◌∷◌, [], refl};
ghost use Rattle.rmp_encode.specs.Markers.{value_of};
ghost use Rattle.rmp_encode.specs.Sizes.{one_of};

use crate::elements::Elements;
use crate::elements::rows::{Row, add_then, write_fields_then, write_then};
use crate::error::Error;
use crate::ser::Serialize;
use crate::serializer::Serializer;
use crate::tuple::Tuple;
use rmp_wire::Sink;
use rmp_wire::config::SerializerConfig;

// These references as elements.
macro_rules! row {
    ($a:expr) => {
        One { first: $a }
    };
    ($a:expr, $b:expr) => {
        Both { first: $a, second: $b }
    };
    ($a:expr, $b:expr, $c:expr) => {
        Three { first: $a, second: $b, third: $c }
    };
    ($a:expr, $b:expr, $c:expr, $d:expr) => {
        Four { first: $a, second: $b, third: $c, fourth: $d }
    };
    ($a:expr, $b:expr, $c:expr, $d:expr, $e:expr) => {
        Five { first: $a, second: $b, third: $c, fourth: $d, fifth: $e }
    };
    ($a:expr, $b:expr, $c:expr, $d:expr, $e:expr, $f:expr) => {
        Six { first: $a, second: $b, third: $c, fourth: $d, fifth: $e, sixth: $f }
    };
    ($a:expr, $b:expr, $c:expr, $d:expr, $e:expr, $f:expr, $g:expr) => {
        Seven { first: $a, second: $b, third: $c, fourth: $d, fifth: $e, sixth: $f, seventh: $g }
    };
}

/// One element.
#[derive(Drop)]
pub struct One<'r, E1> {
    pub first: &'r E1,
}

impl<'r, E1: Serialize> Elements for One<'r, E1> {
    ghost count = { 1 };

    ghost parts_of = { λ v human. E1.data_of v.first.now human ∷ [] };

    ghost are_values = { λ v. E1.is_value v.first.now };

    ghost refusals = { λ v. E1.refuses v.first.now ∷ [] };

    ghost takes_memory = { λ s. one_of (E1.takes_memory s ∷ []) };

    ghost pieces = { λ v s.
        value_of s (E1.data_of v.first.now s.human) (E1.marks v.first.now s) ∷ [] };

    ghost counted = { λ v human. refl };

    #[inline(always)]
    fn len(&self) -> usize {
        1
    }

    #[inline(always)]
    fn write<W: Sink, C: SerializerConfig>(&self, se: &mut Serializer<W, C>) -> Result<(), Error> {
        self.first.serialize(se)
    }

    #[inline(always)]
    fn write_fields<W: Sink, C: SerializerConfig>(
        &self,
        names: &[&'static str],
        se: &mut Serializer<W, C>,
    ) -> Result<(), Error> {
        se.put_field(names[0], self.first)
    }
}

impl<'r, E1: Serialize> Row for One<'r, E1> {
    #[inline(always)]
    fn add_to<W: Sink, C: SerializerConfig>(&self, tup: &mut Tuple<'_, W, C>) -> Result<(), Error> {
        tup.serialize_element(self.first)
    }
}

/// Two elements.
#[derive(Drop)]
pub struct Both<'r, E1, E2> {
    pub first: &'r E1,
    pub second: &'r E2,
}

impl<'r, E1: Serialize, E2: Serialize> Elements for Both<'r, E1, E2> {
    ghost count = { 2 };

    ghost parts_of = { λ v human. E1.data_of v.first.now human ∷ E2.data_of v.second.now human ∷ [] };

    ghost are_values = { λ v. E1.is_value v.first.now × E2.is_value v.second.now };

    ghost refusals = { λ v. E1.refuses v.first.now ∷ E2.refuses v.second.now ∷ [] };

    ghost takes_memory = { λ s. one_of (E1.takes_memory s ∷ (E2.takes_memory s ∷ [])) };

    ghost pieces = { λ v s.
        value_of s (E1.data_of v.first.now s.human) (E1.marks v.first.now s) ∷
        value_of s (E2.data_of v.second.now s.human) (E2.marks v.second.now s) ∷ [] };

    ghost counted = { λ v human. refl };

    #[inline(always)]
    fn len(&self) -> usize {
        2
    }

    #[inline(always)]
    fn write<W: Sink, C: SerializerConfig>(&self, se: &mut Serializer<W, C>) -> Result<(), Error> {
        let rest = row!(self.second);
        write_then(self.first, &rest, se)
    }

    #[inline(always)]
    fn write_fields<W: Sink, C: SerializerConfig>(
        &self,
        names: &[&'static str],
        se: &mut Serializer<W, C>,
    ) -> Result<(), Error> {
        let rest = row!(self.second);
        write_fields_then(self.first, &rest, names, se)
    }
}

impl<'r, E1: Serialize, E2: Serialize> Row for Both<'r, E1, E2> {
    #[inline(always)]
    fn add_to<W: Sink, C: SerializerConfig>(&self, tup: &mut Tuple<'_, W, C>) -> Result<(), Error> {
        let rest = row!(self.second);
        add_then(self.first, &rest, tup)
    }
}

/// Three elements.
#[derive(Drop)]
pub struct Three<'r, E1, E2, E3> {
    pub first: &'r E1,
    pub second: &'r E2,
    pub third: &'r E3,
}

impl<'r, E1: Serialize, E2: Serialize, E3: Serialize> Elements for Three<'r, E1, E2, E3> {
    ghost count = { 3 };

    ghost parts_of = { λ v human. E1.data_of v.first.now human ∷ E2.data_of v.second.now human ∷ E3.data_of v.third.now human ∷ [] };

    ghost are_values = { λ v. E1.is_value v.first.now × E2.is_value v.second.now × E3.is_value v.third.now };

    ghost refusals = { λ v. E1.refuses v.first.now ∷ E2.refuses v.second.now ∷ E3.refuses v.third.now ∷ [] };

    ghost takes_memory = { λ s. one_of (E1.takes_memory s ∷ (E2.takes_memory s ∷ (E3.takes_memory s ∷ []))) };

    ghost pieces = { λ v s.
        value_of s (E1.data_of v.first.now s.human) (E1.marks v.first.now s) ∷
        value_of s (E2.data_of v.second.now s.human) (E2.marks v.second.now s) ∷
        value_of s (E3.data_of v.third.now s.human) (E3.marks v.third.now s) ∷ [] };

    ghost counted = { λ v human. refl };

    #[inline(always)]
    fn len(&self) -> usize {
        3
    }

    #[inline(always)]
    fn write<W: Sink, C: SerializerConfig>(&self, se: &mut Serializer<W, C>) -> Result<(), Error> {
        let rest = row!(self.second, self.third);
        write_then(self.first, &rest, se)
    }

    #[inline(always)]
    fn write_fields<W: Sink, C: SerializerConfig>(
        &self,
        names: &[&'static str],
        se: &mut Serializer<W, C>,
    ) -> Result<(), Error> {
        let rest = row!(self.second, self.third);
        write_fields_then(self.first, &rest, names, se)
    }
}

impl<'r, E1: Serialize, E2: Serialize, E3: Serialize> Row for Three<'r, E1, E2, E3> {
    #[inline(always)]
    fn add_to<W: Sink, C: SerializerConfig>(&self, tup: &mut Tuple<'_, W, C>) -> Result<(), Error> {
        let rest = row!(self.second, self.third);
        add_then(self.first, &rest, tup)
    }
}

/// Four elements.
#[derive(Drop)]
pub struct Four<'r, E1, E2, E3, E4> {
    pub first: &'r E1,
    pub second: &'r E2,
    pub third: &'r E3,
    pub fourth: &'r E4,
}

impl<'r, E1: Serialize, E2: Serialize, E3: Serialize, E4: Serialize> Elements
    for Four<'r, E1, E2, E3, E4> {
    ghost count = { 4 };

    ghost parts_of = { λ v human. E1.data_of v.first.now human ∷ E2.data_of v.second.now human ∷ E3.data_of v.third.now human
        ∷ E4.data_of v.fourth.now human ∷ [] };

    ghost are_values = { λ v. E1.is_value v.first.now × E2.is_value v.second.now × E3.is_value v.third.now × E4.is_value v.fourth.now };

    ghost refusals = { λ v. E1.refuses v.first.now ∷ E2.refuses v.second.now ∷ E3.refuses v.third.now ∷ E4.refuses v.fourth.now ∷ [] };

    ghost takes_memory = { λ s. one_of (E1.takes_memory s ∷ (E2.takes_memory s ∷ (E3.takes_memory s ∷ (E4.takes_memory s ∷ [])))) };

    ghost pieces = { λ v s.
        value_of s (E1.data_of v.first.now s.human) (E1.marks v.first.now s) ∷
        value_of s (E2.data_of v.second.now s.human) (E2.marks v.second.now s) ∷
        value_of s (E3.data_of v.third.now s.human) (E3.marks v.third.now s) ∷
        value_of s (E4.data_of v.fourth.now s.human) (E4.marks v.fourth.now s) ∷ [] };

    ghost counted = { λ v human. refl };

    #[inline(always)]
    fn len(&self) -> usize {
        4
    }

    #[inline(always)]
    fn write<W: Sink, C: SerializerConfig>(&self, se: &mut Serializer<W, C>) -> Result<(), Error> {
        let rest = row!(self.second, self.third, self.fourth);
        write_then(self.first, &rest, se)
    }

    #[inline(always)]
    fn write_fields<W: Sink, C: SerializerConfig>(
        &self,
        names: &[&'static str],
        se: &mut Serializer<W, C>,
    ) -> Result<(), Error> {
        let rest = row!(self.second, self.third, self.fourth);
        write_fields_then(self.first, &rest, names, se)
    }
}

impl<'r, E1: Serialize, E2: Serialize, E3: Serialize, E4: Serialize> Row
    for Four<'r, E1, E2, E3, E4> {
    #[inline(always)]
    fn add_to<W: Sink, C: SerializerConfig>(&self, tup: &mut Tuple<'_, W, C>) -> Result<(), Error> {
        let rest = row!(self.second, self.third, self.fourth);
        add_then(self.first, &rest, tup)
    }
}

/// Five elements.
#[derive(Drop)]
pub struct Five<'r, E1, E2, E3, E4, E5> {
    pub first: &'r E1,
    pub second: &'r E2,
    pub third: &'r E3,
    pub fourth: &'r E4,
    pub fifth: &'r E5,
}

impl<'r, E1: Serialize, E2: Serialize, E3: Serialize, E4: Serialize, E5: Serialize> Elements
    for Five<'r, E1, E2, E3, E4, E5> {
    ghost count = { 5 };

    ghost parts_of = { λ v human. E1.data_of v.first.now human ∷ E2.data_of v.second.now human ∷ E3.data_of v.third.now human
        ∷ E4.data_of v.fourth.now human ∷ E5.data_of v.fifth.now human ∷ [] };

    ghost are_values = { λ v. E1.is_value v.first.now × E2.is_value v.second.now × E3.is_value v.third.now × E4.is_value v.fourth.now
        × E5.is_value v.fifth.now };

    ghost refusals = { λ v. E1.refuses v.first.now ∷ E2.refuses v.second.now ∷ E3.refuses v.third.now ∷ E4.refuses v.fourth.now ∷ E5.refuses v.fifth.now ∷ [] };

    ghost takes_memory = { λ s. one_of (E1.takes_memory s ∷ (E2.takes_memory s ∷ (E3.takes_memory s ∷ (E4.takes_memory s ∷ (E5.takes_memory s ∷ []))))) };

    ghost pieces = { λ v s.
        value_of s (E1.data_of v.first.now s.human) (E1.marks v.first.now s) ∷
        value_of s (E2.data_of v.second.now s.human) (E2.marks v.second.now s) ∷
        value_of s (E3.data_of v.third.now s.human) (E3.marks v.third.now s) ∷
        value_of s (E4.data_of v.fourth.now s.human) (E4.marks v.fourth.now s) ∷
        value_of s (E5.data_of v.fifth.now s.human) (E5.marks v.fifth.now s) ∷ [] };

    ghost counted = { λ v human. refl };

    #[inline(always)]
    fn len(&self) -> usize {
        5
    }

    #[inline(always)]
    fn write<W: Sink, C: SerializerConfig>(&self, se: &mut Serializer<W, C>) -> Result<(), Error> {
        let rest = row!(self.second, self.third, self.fourth, self.fifth);
        write_then(self.first, &rest, se)
    }

    #[inline(always)]
    fn write_fields<W: Sink, C: SerializerConfig>(
        &self,
        names: &[&'static str],
        se: &mut Serializer<W, C>,
    ) -> Result<(), Error> {
        let rest = row!(self.second, self.third, self.fourth, self.fifth);
        write_fields_then(self.first, &rest, names, se)
    }
}

impl<'r, E1: Serialize, E2: Serialize, E3: Serialize, E4: Serialize, E5: Serialize> Row
    for Five<'r, E1, E2, E3, E4, E5> {
    #[inline(always)]
    fn add_to<W: Sink, C: SerializerConfig>(&self, tup: &mut Tuple<'_, W, C>) -> Result<(), Error> {
        let rest = row!(self.second, self.third, self.fourth, self.fifth);
        add_then(self.first, &rest, tup)
    }
}

/// Six elements.
#[derive(Drop)]
pub struct Six<'r, E1, E2, E3, E4, E5, E6> {
    pub first: &'r E1,
    pub second: &'r E2,
    pub third: &'r E3,
    pub fourth: &'r E4,
    pub fifth: &'r E5,
    pub sixth: &'r E6,
}

impl<
    'r,
    E1: Serialize,
    E2: Serialize,
    E3: Serialize,
    E4: Serialize,
    E5: Serialize,
    E6: Serialize,
> Elements for Six<'r, E1, E2, E3, E4, E5, E6> {
    ghost count = { 6 };

    ghost parts_of = { λ v human. E1.data_of v.first.now human ∷ E2.data_of v.second.now human ∷ E3.data_of v.third.now human
        ∷ E4.data_of v.fourth.now human ∷ E5.data_of v.fifth.now human ∷ E6.data_of v.sixth.now human ∷ [] };

    ghost are_values = { λ v. E1.is_value v.first.now × E2.is_value v.second.now × E3.is_value v.third.now × E4.is_value v.fourth.now
        × E5.is_value v.fifth.now × E6.is_value v.sixth.now };

    ghost refusals = { λ v. E1.refuses v.first.now ∷ E2.refuses v.second.now ∷ E3.refuses v.third.now ∷ E4.refuses v.fourth.now ∷ E5.refuses v.fifth.now
        ∷ E6.refuses v.sixth.now ∷ [] };

    ghost takes_memory = { λ s. one_of (E1.takes_memory s
        ∷ (E2.takes_memory s ∷ (E3.takes_memory s ∷ (E4.takes_memory s ∷ (E5.takes_memory s ∷ (E6.takes_memory s ∷ [])))))) };

    ghost pieces = { λ v s.
        value_of s (E1.data_of v.first.now s.human) (E1.marks v.first.now s) ∷
        value_of s (E2.data_of v.second.now s.human) (E2.marks v.second.now s) ∷
        value_of s (E3.data_of v.third.now s.human) (E3.marks v.third.now s) ∷
        value_of s (E4.data_of v.fourth.now s.human) (E4.marks v.fourth.now s) ∷
        value_of s (E5.data_of v.fifth.now s.human) (E5.marks v.fifth.now s) ∷
        value_of s (E6.data_of v.sixth.now s.human) (E6.marks v.sixth.now s) ∷ [] };

    ghost counted = { λ v human. refl };

    #[inline(always)]
    fn len(&self) -> usize {
        6
    }

    #[inline(always)]
    fn write<W: Sink, C: SerializerConfig>(&self, se: &mut Serializer<W, C>) -> Result<(), Error> {
        let rest = row!(self.second, self.third, self.fourth, self.fifth, self.sixth);
        write_then(self.first, &rest, se)
    }

    #[inline(always)]
    fn write_fields<W: Sink, C: SerializerConfig>(
        &self,
        names: &[&'static str],
        se: &mut Serializer<W, C>,
    ) -> Result<(), Error> {
        let rest = row!(self.second, self.third, self.fourth, self.fifth, self.sixth);
        write_fields_then(self.first, &rest, names, se)
    }
}

impl<
    'r,
    E1: Serialize,
    E2: Serialize,
    E3: Serialize,
    E4: Serialize,
    E5: Serialize,
    E6: Serialize,
> Row for Six<'r, E1, E2, E3, E4, E5, E6> {
    #[inline(always)]
    fn add_to<W: Sink, C: SerializerConfig>(&self, tup: &mut Tuple<'_, W, C>) -> Result<(), Error> {
        let rest = row!(self.second, self.third, self.fourth, self.fifth, self.sixth);
        add_then(self.first, &rest, tup)
    }
}

/// Seven elements.
#[derive(Drop)]
pub struct Seven<'r, E1, E2, E3, E4, E5, E6, E7> {
    pub first: &'r E1,
    pub second: &'r E2,
    pub third: &'r E3,
    pub fourth: &'r E4,
    pub fifth: &'r E5,
    pub sixth: &'r E6,
    pub seventh: &'r E7,
}

impl<
    'r,
    E1: Serialize,
    E2: Serialize,
    E3: Serialize,
    E4: Serialize,
    E5: Serialize,
    E6: Serialize,
    E7: Serialize,
> Elements for Seven<'r, E1, E2, E3, E4, E5, E6, E7> {
    ghost count = { 7 };

    ghost parts_of = { λ v human. E1.data_of v.first.now human ∷ E2.data_of v.second.now human ∷ E3.data_of v.third.now human
        ∷ E4.data_of v.fourth.now human ∷ E5.data_of v.fifth.now human ∷ E6.data_of v.sixth.now human ∷ E7.data_of v.seventh.now human ∷ [] };

    ghost are_values = { λ v. E1.is_value v.first.now × E2.is_value v.second.now × E3.is_value v.third.now × E4.is_value v.fourth.now
        × E5.is_value v.fifth.now × E6.is_value v.sixth.now × E7.is_value v.seventh.now };

    ghost refusals = { λ v. E1.refuses v.first.now ∷ E2.refuses v.second.now ∷ E3.refuses v.third.now ∷ E4.refuses v.fourth.now ∷ E5.refuses v.fifth.now
        ∷ E6.refuses v.sixth.now ∷ E7.refuses v.seventh.now ∷ [] };

    ghost takes_memory = { λ s. one_of (E1.takes_memory s
        ∷ (E2.takes_memory s ∷ (E3.takes_memory s ∷ (E4.takes_memory s ∷ (E5.takes_memory s ∷ (E6.takes_memory s ∷ (E7.takes_memory s ∷ []))))))) };

    ghost pieces = { λ v s.
        value_of s (E1.data_of v.first.now s.human) (E1.marks v.first.now s) ∷
        value_of s (E2.data_of v.second.now s.human) (E2.marks v.second.now s) ∷
        value_of s (E3.data_of v.third.now s.human) (E3.marks v.third.now s) ∷
        value_of s (E4.data_of v.fourth.now s.human) (E4.marks v.fourth.now s) ∷
        value_of s (E5.data_of v.fifth.now s.human) (E5.marks v.fifth.now s) ∷
        value_of s (E6.data_of v.sixth.now s.human) (E6.marks v.sixth.now s) ∷
        value_of s (E7.data_of v.seventh.now s.human) (E7.marks v.seventh.now s) ∷ [] };

    ghost counted = { λ v human. refl };

    #[inline(always)]
    fn len(&self) -> usize {
        7
    }

    #[inline(always)]
    fn write<W: Sink, C: SerializerConfig>(&self, se: &mut Serializer<W, C>) -> Result<(), Error> {
        let rest = row!(
            self.second,
            self.third,
            self.fourth,
            self.fifth,
            self.sixth,
            self.seventh
        );
        write_then(self.first, &rest, se)
    }

    #[inline(always)]
    fn write_fields<W: Sink, C: SerializerConfig>(
        &self,
        names: &[&'static str],
        se: &mut Serializer<W, C>,
    ) -> Result<(), Error> {
        let rest = row!(
            self.second,
            self.third,
            self.fourth,
            self.fifth,
            self.sixth,
            self.seventh
        );
        write_fields_then(self.first, &rest, names, se)
    }
}

impl<
    'r,
    E1: Serialize,
    E2: Serialize,
    E3: Serialize,
    E4: Serialize,
    E5: Serialize,
    E6: Serialize,
    E7: Serialize,
> Row for Seven<'r, E1, E2, E3, E4, E5, E6, E7> {
    #[inline(always)]
    fn add_to<W: Sink, C: SerializerConfig>(&self, tup: &mut Tuple<'_, W, C>) -> Result<(), Error> {
        let rest = row!(
            self.second,
            self.third,
            self.fourth,
            self.fifth,
            self.sixth,
            self.seventh
        );
        add_then(self.first, &rest, tup)
    }
}

/// Eight elements.
#[derive(Drop)]
pub struct Eight<'r, E1, E2, E3, E4, E5, E6, E7, E8> {
    pub first: &'r E1,
    pub second: &'r E2,
    pub third: &'r E3,
    pub fourth: &'r E4,
    pub fifth: &'r E5,
    pub sixth: &'r E6,
    pub seventh: &'r E7,
    pub eighth: &'r E8,
}

impl<
    'r,
    E1: Serialize,
    E2: Serialize,
    E3: Serialize,
    E4: Serialize,
    E5: Serialize,
    E6: Serialize,
    E7: Serialize,
    E8: Serialize,
> Elements for Eight<'r, E1, E2, E3, E4, E5, E6, E7, E8> {
    ghost count = { 8 };

    ghost parts_of = { λ v human. E1.data_of v.first.now human ∷ E2.data_of v.second.now human ∷ E3.data_of v.third.now human
        ∷ E4.data_of v.fourth.now human ∷ E5.data_of v.fifth.now human ∷ E6.data_of v.sixth.now human ∷ E7.data_of v.seventh.now human
        ∷ E8.data_of v.eighth.now human ∷ [] };

    ghost are_values = { λ v. E1.is_value v.first.now × E2.is_value v.second.now × E3.is_value v.third.now × E4.is_value v.fourth.now
        × E5.is_value v.fifth.now × E6.is_value v.sixth.now × E7.is_value v.seventh.now × E8.is_value v.eighth.now };

    ghost refusals = { λ v. E1.refuses v.first.now ∷ E2.refuses v.second.now ∷ E3.refuses v.third.now ∷ E4.refuses v.fourth.now ∷ E5.refuses v.fifth.now
        ∷ E6.refuses v.sixth.now ∷ E7.refuses v.seventh.now ∷ E8.refuses v.eighth.now ∷ [] };

    ghost takes_memory = { λ s. one_of (E1.takes_memory s
        ∷ (E2.takes_memory s ∷ (E3.takes_memory s ∷ (E4.takes_memory s
        ∷ (E5.takes_memory s ∷ (E6.takes_memory s ∷ (E7.takes_memory s ∷ (E8.takes_memory s ∷ [])))))))) };

    ghost pieces = { λ v s.
        value_of s (E1.data_of v.first.now s.human) (E1.marks v.first.now s) ∷
        value_of s (E2.data_of v.second.now s.human) (E2.marks v.second.now s) ∷
        value_of s (E3.data_of v.third.now s.human) (E3.marks v.third.now s) ∷
        value_of s (E4.data_of v.fourth.now s.human) (E4.marks v.fourth.now s) ∷
        value_of s (E5.data_of v.fifth.now s.human) (E5.marks v.fifth.now s) ∷
        value_of s (E6.data_of v.sixth.now s.human) (E6.marks v.sixth.now s) ∷
        value_of s (E7.data_of v.seventh.now s.human) (E7.marks v.seventh.now s) ∷
        value_of s (E8.data_of v.eighth.now s.human) (E8.marks v.eighth.now s) ∷ [] };

    ghost counted = { λ v human. refl };

    #[inline(always)]
    fn len(&self) -> usize {
        8
    }

    #[inline(always)]
    fn write<W: Sink, C: SerializerConfig>(&self, se: &mut Serializer<W, C>) -> Result<(), Error> {
        let rest = row!(
            self.second,
            self.third,
            self.fourth,
            self.fifth,
            self.sixth,
            self.seventh,
            self.eighth
        );
        write_then(self.first, &rest, se)
    }

    #[inline(always)]
    fn write_fields<W: Sink, C: SerializerConfig>(
        &self,
        names: &[&'static str],
        se: &mut Serializer<W, C>,
    ) -> Result<(), Error> {
        let rest = row!(
            self.second,
            self.third,
            self.fourth,
            self.fifth,
            self.sixth,
            self.seventh,
            self.eighth
        );
        write_fields_then(self.first, &rest, names, se)
    }
}

impl<
    'r,
    E1: Serialize,
    E2: Serialize,
    E3: Serialize,
    E4: Serialize,
    E5: Serialize,
    E6: Serialize,
    E7: Serialize,
    E8: Serialize,
> Row for Eight<'r, E1, E2, E3, E4, E5, E6, E7, E8> {
    #[inline(always)]
    fn add_to<W: Sink, C: SerializerConfig>(&self, tup: &mut Tuple<'_, W, C>) -> Result<(), Error> {
        let rest = row!(
            self.second,
            self.third,
            self.fourth,
            self.fifth,
            self.sixth,
            self.seventh,
            self.eighth
        );
        add_then(self.first, &rest, tup)
    }
}
