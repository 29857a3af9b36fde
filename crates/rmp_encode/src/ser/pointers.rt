//! Pointers, which are written as the value that they point to.
use crate::error::Error;
use crate::ser::Serialize;
use crate::serializer::Serializer;
use rmp_wire::Sink;
use rmp_wire::config::SerializerConfig;

impl<T: Serialize> Serialize for &T {
    ghost data_of = { λ v human. T.data_of v.now human };

    ghost is_value = { λ v. T.is_value v.now };

    ghost takes_memory = { T.takes_memory };

    ghost refuses = { λ v. T.refuses v.now };

    ghost marks = { λ v. T.marks v.now };

    #[inline(always)]
    fn serialize<W: Sink, C: SerializerConfig>(
        &self,
        se: &mut Serializer<W, C>,
    ) -> Result<(), Error> {
        (**self).serialize(se)
    }

    #[inline(always)]
    fn as_u8(&self, human: bool) -> Option<u8> {
        (**self).as_u8(human)
    }
}

impl<T: Serialize> Serialize for Box<T> {
    ghost data_of = { λ v human. T.data_of v.value human };

    ghost is_value = { λ v. T.is_value v.value };

    ghost takes_memory = { T.takes_memory };

    ghost refuses = { λ v. T.refuses v.value };

    ghost marks = { λ v. T.marks v.value };

    #[inline(always)]
    fn serialize<W: Sink, C: SerializerConfig>(
        &self,
        se: &mut Serializer<W, C>,
    ) -> Result<(), Error> {
        (**self).serialize(se)
    }

    #[inline(always)]
    fn as_u8(&self, human: bool) -> Option<u8> {
        (**self).as_u8(human)
    }
}
