//! Options, unit structs and newtype structs.
ghost use Rattle.rmp_decode.specs.Leaves.{ReadsLeaf};
ghost use Rattle.std.specs.Prelude.{◌≡◌, ◌≢◌, false, None, Some, IfErr, true, Err};
ghost use Rattle.std.specs.Fn.{FnOnceTakesAtMut};
ghost use Rattle.rmp_decode.specs.Law.{Lawful};
ghost use Rattle.rmp_decode.specs.Options.{IsOption, Looks, LooksAhead, OptionRead, RefusesOption, SeesOther};
ghost use Rattle.rmp_decode.specs.Refusing.{ReadsAs, RefusesAs};
ghost use Rattle.rmp_decode.specs.State.{is_failed, failed_of, room_of};
ghost use Rattle.rmp_decode.specs.Exact.{RefusesHead};
ghost use Rattle.rmp_decode.specs.Units.{IsExtName, IsNewtype, IsNothing, not_nothing};
ghost use Rattle.rmp_decode.specs.declared.text.Text.TheVariants as words;

use crate::access::seq::first_of;
use crate::de::Deserialize;
use crate::deserializer::heads::Levels;
use crate::deserializer::peek::{ListOf, NilHead};
use crate::deserializer::{Deserializer, Kept};
use crate::error::Error;
use crate::text::Text;
use rmp_wire::config::SerializerConfig;
use rmp_wire::read::read_marker;
use rmp_wire::{MSGPACK_EXT_STRUCT_NAME, ReadSlice, Source};

/// The byte of nil.
const NIL: u8 = 0xc0;

impl<R: Source, C: SerializerConfig> Deserializer<R, C> {
    // Consumes a buffered nil, or leaves another buffered message where the source tells its bytes; answers which. Returns `None` and
    // consumes nothing otherwise.
    #[inline(always)]
    fn peek_nil<'de>(&mut self) -> Option<bool>
    where
        R: ReadSlice<'de>,
        ensures { LooksAhead R.Source self.old self.new result }
    {
        if !self.begins_ahead() {
            return None;
        }
        match first_of(self.reader.front()) {
            Some(byte) => {
                if byte == NIL {
                    return if self.reader.skip(1) {
                        Some(true)
                    } else {
                        None
                    };
                }
                if self.reader.tells() {
                    Some(false)
                } else {
                    None
                }
            }
            None => None,
        }
    }

    // Consumes nil, or keeps back the first byte of another message, and returns which.
    #[inline(always)]
    fn take_nil(&mut self) -> Result<bool, Error>
        ensures { Looks R.Source self.old self.new result }
    {
        if self.failed {
            return Err(Error::Uncategorized(Text::FailedBefore));
        }
        match self.kept {
            Kept::Nothing => match read_marker(&mut self.reader) {
                Ok(marker) => {
                    let byte = marker.to_u8();
                    if byte == NIL {
                        return Ok(true);
                    }
                    self.kept = Kept::First(byte);
                    Ok(false)
                }
                Err(e) => {
                    self.failed = true;
                    Err(Error::InvalidMarkerRead(e.0))
                }
            },
            Kept::First(byte) => {
                if byte == NIL {
                    self.kept = Kept::Nothing;
                    return Ok(true);
                }
                Ok(false)
            }
            Kept::Number(_) => Ok(false),
        }
    }

    /// Reads an option: nil as `None`, and any other message as the value. So `Some` of a value that is written as nil
    /// is read back as `None`.
    ///
    /// It looks at the first byte of the message. If that isn't nil, it is left to be read with the value.
    ///
    /// # Errors
    /// `InvalidMarkerRead` if the input ends before the message, and otherwise those of the value.
    #[inline(always)]
    pub fn deserialize_option<'de, T: Deserialize<'de, R>>(&mut self) -> Result<Option<T>, Error>
    where
        R: ReadSlice<'de>,
        ensures law { Lawful R.Source (IsOption (T.reads C.human R.lends)) self.old self.new result }
        ensures refused { RefusesAs R.Source C.human R.lends (RefusesOption T.refuses) self.old self.new result }
        ensures memory { T.takes_memory R.lends ≡ false → IfErr result (λ e. e ≢ Error.OutOfMemory) }
    {
        match self.peek_nil() {
            Some(true) => Ok(None),
            Some(false) => match T::deserialize(self) {
                Ok(value) => Ok(Some(value)),
                Err(e) => Err(e),
            },
            None => match self.kept_option() {
                Ok(option) => Ok(option),
                Err(e) => Err(e),
            },
        }
    }

    // Reads an option whose first byte is kept back. Out of line.
    #[inline(never)]
    fn kept_option<'de, T: Deserialize<'de, R>>(&mut self) -> Result<Option<T>, Error>
    where
        R: ReadSlice<'de>,
        ensures { ReadsAs R.Source C.human R.lends (T.takes_memory R.lends) (IsOption (T.reads C.human R.lends)) (RefusesOption T.refuses)
            self.old self.new result }
    {
        match self.take_nil() {
            Ok(true) => Ok(None),
            Ok(false) => match T::deserialize(self) {
                Ok(value) => Ok(Some(value)),
                Err(e) => Err(e),
            },
            Err(e) => Err(e),
        }
    }

    /// Reads an option, as `deserialize_option` does, with the value read by `f`, which gets the reader before the
    /// value. An `f` that returns `Ok` must have read the value and nothing else.
    ///
    /// # Errors
    /// `InvalidMarkerRead` if the input ends before the message; those of `f`; and `Uncategorized("failed before")` if
    /// `f` returned `Ok` but left the reader failed.
    #[inline(never)]
    pub fn deserialize_option_with<X: Drop, F>(&mut self, f: F) -> Result<Option<X>, Error>
    where
        F: FnOnce(&mut Deserializer<R, C>) -> Result<X, Error>,
        requires { is_failed self.old ≡ false → (d : Deserializer R C) → SeesOther R.Source self.old d → FnOnceTakesAtMut F.FnOnce f d }
        ensures { OptionRead R.Source F.FnOnce f self.old self.new result }
    {
        match self.take_nil() {
            Ok(true) => return Ok(None),
            Ok(false) => {}
            Err(e) => return Err(e),
        }
        match f(self) {
            Ok(value) => {
                if self.failed {
                    return Err(Error::Uncategorized(Text::FailedBefore));
                }
                Ok(Some(value))
            }
            Err(e) => {
                self.failed = true;
                Err(e)
            }
        }
    }

    /// Reads a struct without fields, from nil or an empty list. Its name isn't used.
    ///
    /// # Errors
    /// `DepthLimitExceeded` for an empty list that nests too deep, and `Syntax("invalid type")` for any other list and
    /// for another kind.
    #[inline(always)]
    pub fn deserialize_unit_struct(&mut self, _name: &str) -> Result<(), Error>
        ensures law { Lawful R.Source (λ m _. IsNothing m) self.old self.new result }
        ensures exact { RefusesHead R.Source (not_nothing (room_of self.old)) self.old self.new result }
        ensures memory { IfErr result (λ e. e ≢ Error.OutOfMemory) }
    {
        if let Some(()) = self.take_nested(ListOf { count: 0 }) {
            self.failed = false;
            return Ok(());
        }
        if let Some(()) = self.take(NilHead) {
            self.failed = false;
            return Ok(());
        }
        self.slow_unit_struct()
    }

    // The slow path of `deserialize_unit_struct`.
    #[inline(never)]
    fn slow_unit_struct(&mut self) -> Result<(), Error>
        ensures { ReadsLeaf R.Source (λ m _. IsNothing m) (not_nothing (room_of self.old)) self.old self.new result }
    {
        let (_, head) = match self.opening(Levels::Lists) {
            Ok(next) => next,
            Err(e) => return Err(e),
        };
        if let Some(()) = head.as_nil() {
            self.failed = false;
            return Ok(());
        }
        match head.as_array() {
            Some(len) => {
                if len > 0 {
                    return Err(Error::Syntax(Text::InvalidType));
                }
                self.failed = false;
                Ok(())
            }
            None => Err(Error::Syntax(Text::InvalidType)),
        }
    }

    /// Reads a newtype struct: its content, which is encoded as without the struct. The name isn't used, except that
    /// the name of extensions in the Rust crate is refused.
    ///
    /// # Errors
    /// `Syntax("extensions are read by deserialize_ext")` if the name is `MSGPACK_EXT_STRUCT_NAME`, and nothing is
    /// consumed. Otherwise those of the content.
    #[inline(always)]
    pub fn deserialize_newtype_struct<'de, T: Deserialize<'de, R>>(
        &mut self,
        name: &str,
    ) -> Result<T, Error>
    where
        R: ReadSlice<'de>,
        ensures law { Lawful R.Source (IsNewtype name.now (T.reads C.human R.lends)) self.old self.new result }
        ensures refused { (IsExtName name.now → ⊥) → RefusesAs R.Source C.human R.lends T.refuses self.old self.new result }
        ensures named { IsExtName name.now → is_failed self.old ≡ false → (result ≡ Err (Error.Syntax words.ReadByExt)) × (self.new ≡ failed_of self.old) }
        ensures memory { T.takes_memory R.lends ≡ false → IfErr result (λ e. e ≢ Error.OutOfMemory) }
    {
        if name == MSGPACK_EXT_STRUCT_NAME {
            if self.failed {
                return Err(Error::Uncategorized(Text::FailedBefore));
            }
            self.failed = true;
            return Err(Error::Syntax(Text::ReadByExt));
        }
        T::deserialize(self)
    }
}

/// Nil is `None`, and any other message is read as the value. A field that is missing is `None`.
impl<'de, R: ReadSlice<'de>, T: Deserialize<'de, R>> Deserialize<'de, R> for Option<T> {
    ghost reads = { λ human lends. IsOption (T.reads human lends) };

    ghost absent = { Some None };

    ghost refuses = { RefusesOption T.refuses };

    ghost takes_memory = { T.takes_memory };

    #[inline(always)]
    fn deserialize<C: SerializerConfig>(de: &mut Deserializer<R, C>) -> Result<Option<T>, Error> {
        de.deserialize_option()
    }

    fn missing() -> Option<Option<T>> {
        Some(None)
    }
}
