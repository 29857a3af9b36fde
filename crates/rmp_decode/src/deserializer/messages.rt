//! The messages of a source, one after another.
ghost use Rattle.rmp_decode.specs.Messages.{messages_left, YieldsMessage};

use crate::de::Deserialize;
use crate::deserializer::Deserializer;
use crate::error::Error;
use rmp_wire::ReadSlice;
use rmp_wire::config::{DefaultConfig, SerializerConfig};
use std::marker::PhantomData;

/// An iterator over the messages of a source, each read as a `T`. It ends after the first error.
#[derive(Drop)]
pub struct Messages<'x, 'de, T, R, C = DefaultConfig> {
    pub(crate) de: &'x mut Deserializer<R, C>,
    pub(crate) done: bool,
    pub(crate) of: PhantomData<(&'de [u8], T)>,
}

impl<'x, 'de, T: Deserialize<'de, R>, R: ReadSlice<'de>, C: SerializerConfig> Iterator
    for Messages<'x, 'de, T, R, C> {
    type Item = Result<T, Error>;

    ghost next_gives = { λ s r t. YieldsMessage R.Source C.human R.lends (T.takes_memory R.lends) (T.reads C.human R.lends) T.refuses s r t };

    ghost remaining = { messages_left R.Source };

    fn next(&mut self) -> Option<Result<T, Error>> {
        if self.done {
            return None;
        }
        match self.de.next() {
            Ok(Some(value)) => Some(Ok(value)),
            Ok(None) => {
                self.done = true;
                None
            }
            Err(e) => {
                self.done = true;
                Some(Err(e))
            }
        }
    }

    // (written out, since the borrow checker doesn't cover the trait's own body for a type that holds a `&mut`)
    fn size_hint(&self) -> (usize, Option<usize>) {
        (0, None)
    }
}
