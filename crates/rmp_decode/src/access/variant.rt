//! Reads enums. A variant is its name, or a map of one pair from the name to the content.
ghost use Rattle.rmp_decode.specs.FieldAccess.{OpensStructIn, FailsToOpenStructOf, struct_reference};
ghost use Rattle.rmp_decode.specs.Leaves.{ReadsLeaf};
ghost use Rattle.std.specs.Prelude.{◌≡◌, ◌≢◌, ◌<◌, ◌-◌, Err, Some, None, true, false, IfOk, IfErr, OnOk, OnErr, length, max, MatchOption, ◌≤◌};
ghost use Rattle.std.specs.Borrow.{sem, RestsIfErr};
ghost use Rattle.std.specs.Fn.{FnOnceTakesAtMut};
ghost use Rattle.rmp_wire.specs.Msg.{Msg};
ghost use Rattle.rmp_decode.specs.contracts.deserializer.Deserializer.{the_row};
ghost use Rattle.rmp_decode.specs.Exact.{RefusesExactly};
ghost use Rattle.rmp_decode.specs.FieldRefusing.{RefusesFields, PassesSome};
ghost use Rattle.rmp_decode.specs.Refusing.{setting_of};
ghost use Rattle.rmp_decode.specs.Fields.{OfFields};
ghost use Rattle.rmp_decode.specs.Kinds.{raw_head};
ghost use Rattle.rmp_decode.specs.Law.{Readable};
ghost use Rattle.rmp_decode.specs.MapRefusing.{PartRefused, ReadsPart};
ghost use Rattle.rmp_decode.specs.Names.{bytes_of, place_below};
ghost use Rattle.rmp_decode.specs.Seq.{reference_of};
ghost use Rattle.rmp_decode.specs.State.{left};
ghost use Rattle.rmp_decode.specs.VariantNames.{IsPlace, unknown_name, RefusesName, ReadsPlaceRest, PlacesNumber};
ghost use Rattle.rmp_decode.specs.Variants.{not_unit, is_bare, variant_lender, variant_reference, content_room, ReadsBare, RefusesBare, NamesVariant, OpensName};
ghost use Rattle.rmp_decode.specs.Variants.{ReadsContent, RefusesContentOf, ContentRefusedBy, ContentGiven, OpensSeqIn, FailsToOpenSeqOf};
ghost use Rattle.rmp_decode.specs.With.{part_reader};

use crate::access::field_access::FieldAccess;
use crate::access::fields::Fields;
use crate::access::names::place_below;
use crate::access::parts::{inner_room, levels_outside};
use crate::access::seq::SeqAccess;
use crate::content::ReadContent;
use crate::de::Deserialize;
use crate::deserializer::Deserializer;
use crate::deserializer::heads::Levels;
use crate::deserializer::peek::MapOf;
use crate::error::Error;
use crate::text::Text;
use rmp_wire::config::SerializerConfig;
use rmp_wire::{Head, ReadSlice, Source};
use std::str;

/// A variant of an enum whose name was read, but not its content.
///
/// The reader counts as failed until the content is read, or it is read that there is none; a variant that is dropped
/// earlier leaves it failed.
#[derive(Drop)]
pub struct Variant<'x, R, C> {
    pub(crate) de: &'x mut Deserializer<R, C>,
    pub(crate) bare: bool,
    pub(crate) inner: u32,
}

// The error of a text or of bytes that are no variant's name.
#[inline(never)]
pub(crate) fn unknown_name(is_text: bool, bytes: &[u8]) -> Error
    ensures { unknown_name (raw_head is_text (length bytes.now)) bytes.now result }
{
    if is_text {
        match str::from_utf8(bytes) {
            Ok(_) => Error::Syntax(Text::UnknownVariant),
            Err(e) => Error::Utf8Error(e),
        }
    } else {
        Error::Syntax(Text::UnknownVariant)
    }
}

// The place that a head is, which isn't that of a text or of bytes.
#[inline(always)]
fn place_in(count: usize, head: Head) -> Result<usize, Error>
    ensures { PlacesNumber count head result }
{
    match head.as_whole() {
        Some(z) => match place_below(count, z) {
            Some(Some(place)) => Ok(place),
            Some(None) => Err(Error::Syntax(Text::UnknownVariant)),
            None => Err(Error::Syntax(Text::InvalidType)),
        },
        None => Err(Error::Syntax(Text::InvalidType)),
    }
}

impl<R: Source, C: SerializerConfig> Deserializer<R, C> {
    // Reads the rest of a name whose head was consumed.
    #[inline(always)]
    fn rest_of_name<P: ReadContent<R>>(
        &mut self,
        head: Head,
        names: &[&str],
    ) -> Result<usize, Error>
        ensures { ReadsPlaceRest R.Source (bytes_of names.now) P.lends head self.old self.new result }
    {
        match head.as_raw() {
            Some((is_text, len)) => {
                match P::variant(&mut self.reader, names, is_text, len as usize) {
                    Ok(place) => {
                        self.failed = false;
                        Ok(place)
                    }
                    Err(e) => Err(e),
                }
            }
            None => match place_in(names.len(), head) {
                Ok(place) => {
                    self.failed = false;
                    Ok(place)
                }
                Err(e) => Err(e),
            },
        }
    }

    // Reads a variant's name as the key of a map, out of line. The reader counts as failed until the content is read.
    #[inline(never)]
    fn name_of_pair<P: ReadContent<R>>(&mut self, names: &[&str]) -> Result<usize, Error>
        ensures { ReadsPart R.Source C.human P.lends (λ human lends. IsPlace (bytes_of names.now)) (λ s. RefusesName s.strict) (P.lends ≡ true)
            (max 1 (self.old.room - 1)) self.old self.new result }
    {
        self.failed = false;
        match self.head() {
            Ok((_, head)) => match self.rest_of_name::<P>(head, names) {
                Ok(place) => {
                    self.failed = true;
                    Ok(place)
                }
                Err(e) => Err(e),
            },
            Err(e) => Err(e),
        }
    }

    // Consumes a buffered name without content, and returns its place. Returns `None` and consumes nothing otherwise.
    #[inline(always)]
    fn take_bare_name(&mut self, names: &[&str]) -> Option<usize>
        ensures { MatchOption result (self.new ≡ self.old) (NamesVariant R.Source names.now true self.old self.new (self.old.room - 1)) }
    {
        if !self.begins_ahead() {
            return None;
        }
        self.failed = true;
        match self.take_name(names, true) {
            Some(place) => Some(place),
            None => {
                self.failed = false;
                None
            }
        }
    }

    // Consumes what precedes a variant's content. Returns the variant's place, and whether it is only a name. The fast
    // path is for buffered bytes.
    #[inline(always)]
    pub(crate) fn open_variant<P: ReadContent<R>>(
        &mut self,
        names: &[&str],
    ) -> Result<(usize, bool), Error>
        ensures { OpensName R.Source names.now P.lends self.old self.new result }
    {
        if let Some(place) = self.take_bare_name(names) {
            return Ok((place, true));
        }
        match self.take_nested(MapOf { count: 1 }) {
            Some(()) => match self.take_name(names, true) {
                Some(place) => Ok((place, false)),
                None => match self.name_of_pair::<P>(names) {
                    Ok(place) => Ok((place, false)),
                    Err(e) => Err(e),
                },
            },
            None => self.slow_variant::<P>(names),
        }
    }

    // The slow path of `open_variant`.
    #[inline(never)]
    fn slow_variant<P: ReadContent<R>>(&mut self, names: &[&str]) -> Result<(usize, bool), Error>
        ensures { OpensName R.Source names.now P.lends self.old self.new result }
    {
        match self.opening(Levels::Pairs) {
            Ok((_, head)) => match head.as_map() {
                Some(1) => match self.name_of_pair::<P>(names) {
                    Ok(place) => Ok((place, false)),
                    Err(e) => Err(e),
                },
                Some(len) => Err(Error::LengthMismatch(len)),
                None => match self.rest_of_name::<P>(head, names) {
                    Ok(place) => {
                        self.failed = true;
                        Ok((place, true))
                    }
                    Err(e) => Err(e),
                },
            },
            Err(e) => Err(e),
        }
    }

    // Reads nil as the content of a variant.
    #[inline(always)]
    fn unit_content(&mut self) -> Result<(), Error>
        ensures { ReadsLeaf R.Source (λ m _. m ≡ Msg.nil) not_unit self.old self.new result }
    {
        match self.head() {
            Ok((marker, head)) => match head.as_nil() {
                Some(()) => {
                    self.failed = false;
                    Ok(())
                }
                None => Err(Error::TypeMismatch(marker)),
            },
            Err(e) => Err(e),
        }
    }
}

impl<'x, R: Source, C: SerializerConfig> Variant<'x, R, C> {
    /// Returns whether the variant is only a name, without content.
    pub fn is_bare(&self) -> bool
        ensures { result ≡ is_bare self.now }
    {
        self.bare
    }

    /// Reads a variant without content: only a name, or nil as the content.
    ///
    /// # Errors
    /// `TypeMismatch` with the marker of the content, if it isn't nil.
    #[inline(always)]
    pub fn unit_variant(self) -> Result<(), Error>
        ensures ok { OnOk result (ReadsBare R.Source self.entry self.exit.0.now) }
        ensures err { IfErr result (RefusesBare R.Source self.entry self.exit.0.now) }
        ensures bare { is_bare self.entry ≡ true → OnErr result ⊥ × (self.exit.0.now ≡ record (variant_lender self.entry) { failed = false }) }
        ensures exact { is_bare self.entry ≡ false → IfErr result (ContentRefusedBy R.Source (λ strict. RefusesExactly strict not_unit)
            self.entry self.exit.0.now) }
        ensures memory { IfErr result (λ e. e ≢ Error.OutOfMemory) }
    {
        let Variant { de, bare, inner } = self;
        de.failed = false;
        if bare {
            return Ok(());
        }
        let outer = de.room;
        match de.unit_content() {
            Ok(()) => {}
            Err(e) => {
                de.levels = levels_outside(de.levels, outer, inner);
                return Err(e);
            }
        }
        Ok(())
    }

    /// Reads the content of a variant.
    ///
    /// # Errors
    /// `Syntax("invalid type")` if the variant is only a name, and otherwise those of the content's type.
    #[inline(always)]
    pub fn newtype_variant<'de, T: Deserialize<'de, R>>(self) -> Result<T, Error>
    where
        R: ReadSlice<'de>,
        ensures ok { IfOk result (ReadsContent R.Source C.human (λ human. T.reads human R.lends) self.entry self.exit.0.now) }
        ensures err { IfErr result (RefusesContentOf R.Source C.human (λ human. Readable (T.reads human R.lends)) self.entry self.exit.0.now) }
        ensures bare { is_bare self.entry ≡ true → (result ≡ Err (Error.Syntax Text.InvalidType)) × (self.exit.0.now ≡ variant_lender self.entry) }
        ensures refused { is_bare self.entry ≡ false → IfErr result (PartRefused R.Source C.human
            R.lends T.refuses (max 1 (content_room self.entry)) (variant_lender self.entry) self.exit.0.now) }
        ensures memory { T.takes_memory R.lends ≡ false → IfErr result (λ e. e ≢ Error.OutOfMemory) }
    {
        let Variant { de, bare, inner } = self;
        if bare {
            return Err(Error::Syntax(Text::InvalidType));
        }
        let content = match de.part(inner) {
            Ok(content) => content,
            Err(e) => return Err(e),
        };
        de.failed = false;
        Ok(content)
    }

    /// Reads the content of a variant by `f`, which gets the reader before the content. An `f` that returns `Ok` must
    /// have read the content and nothing else.
    ///
    /// # Errors
    /// `Syntax("invalid type")` if the variant is only a name, without calling `f`; those of `f`; and
    /// `Uncategorized("failed before")` if `f` returned `Ok` but left the reader failed.
    #[inline(never)]
    pub fn newtype_variant_with<X: Drop, F>(self, f: F) -> Result<X, Error>
    where
        F: FnOnce(&mut Deserializer<R, C>) -> Result<X, Error>,
        requires { is_bare self ≡ false → FnOnceTakesAtMut F.FnOnce f (part_reader (variant_lender self) (content_room self)) }
        ensures bare { is_bare self.entry ≡ true → (result ≡ Err (Error.Syntax Text.InvalidType)) × (self.exit.0.now ≡ variant_lender self.entry) }
        ensures part { is_bare self.entry ≡ false → ContentGiven F.FnOnce f (content_room self.entry) (variant_lender self.entry) self.exit.0.now result }
    {
        let Variant { de, bare, inner } = self;
        if bare {
            return Err(Error::Syntax(Text::InvalidType));
        }
        let content = match de.part_with(inner, f) {
            Ok(content) => content,
            Err(e) => return Err(e),
        };
        de.failed = false;
        Ok(content)
    }

    /// Opens the content of a variant as a list, or bytes as the list of their numbers. Ending the list ends the
    /// variant. How many elements it has is up to the calls that read them, so `len` isn't used.
    ///
    /// # Errors
    /// `Syntax("invalid type")` if the variant is only a name, and otherwise those of `deserialize_seq`.
    #[inline(always)]
    pub fn tuple_variant(self, _len: usize) -> Result<SeqAccess<'x, R, C>, Error>
        ensures* refused { sem 𝓛 (RestsIfErr (the_row R.row C.row) self.entry.de reference_of result
            (λ last. IfErr result (FailsToOpenSeqOf R.Source self.entry last))) }
        ensures same_reference { IfOk result (λ s. reference_of s ≡ variant_reference self.entry) }
        ensures paired { OnOk result (is_bare self.entry ≡ false) }
        ensures opened { IfOk result (OpensSeqIn R.Source (content_room self.entry) (variant_lender self.entry)) }
        ensures memory { IfErr result (λ e. e ≢ Error.OutOfMemory) }
    {
        let Variant { de, bare, inner } = self;
        if bare {
            return Err(Error::Syntax(Text::InvalidType));
        }
        let outer = de.room;
        de.room = inner;
        de.failed = false;
        match de.open_tuple() {
            Ok((bytes, left)) => {
                de.room = outer;
                Ok(SeqAccess {
                    de,
                    left,
                    count: left,
                    inner: inner_room(inner, bytes),
                    bytes,
                    sound: true,
                })
            }
            Err(e) => {
                de.room = outer;
                de.levels = levels_outside(de.levels, outer, inner);
                Err(e)
            }
        }
    }

    /// Opens the content of a variant as the fields of a struct: a list, bytes as the list of their numbers, or a map
    /// from the names, of which there may be 128. Ending the fields ends the variant.
    ///
    /// # Errors
    /// `Syntax("invalid type")` if the variant is only a name, and otherwise those of `deserialize_struct`.
    #[inline(always)]
    pub fn struct_variant(self, names: &'x [&'x str]) -> Result<FieldAccess<'x, R, C>, Error>
        requires few { length names.now ≤ 128 }
        ensures* refused { sem 𝓛 (RestsIfErr (the_row R.row C.row) self.entry.de struct_reference result
            (λ last. IfErr result (FailsToOpenStructOf R.Source self.entry last))) }
        ensures same_reference { IfOk result (λ a. struct_reference a ≡ variant_reference self.entry) }
        ensures paired { OnOk result (is_bare self.entry ≡ false) }
        ensures opened { IfOk result (OpensStructIn R.Source (bytes_of names.now) (content_room self.entry) (variant_lender self.entry)) }
        ensures memory { IfErr result (λ e. e ≢ Error.OutOfMemory) }
    {
        let Variant { de, bare, inner } = self;
        if bare {
            return Err(Error::Syntax(Text::InvalidType));
        }
        let outer = de.room;
        de.room = inner;
        de.failed = false;
        match de.open_struct() {
            Ok((kind, left)) => {
                de.room = outer;
                let bytes = kind.unwrap_or(false);
                Ok(FieldAccess {
                    de,
                    names,
                    left,
                    count: left,
                    inner: inner_room(inner, bytes),
                    is_map: kind.is_none(),
                    bytes,
                    owes: false,
                    sound: true,
                    met: 0,
                })
            }
            Err(e) => {
                de.room = outer;
                de.levels = levels_outside(de.levels, outer, inner);
                Err(e)
            }
        }
    }

    /// Reads the content of a variant as the fields of a struct, by their names.
    ///
    /// # Errors
    /// `Syntax("invalid type")` if the variant is only a name, and otherwise those of `deserialize_fields`.
    #[inline(always)]
    pub fn fields_variant<'de, F: Fields<'de, R>>(self, names: &[&str]) -> Result<F, Error>
    where
        R: ReadSlice<'de>,
        requires count { length names.now ≡ F.count }
        ensures ok { IfOk result (ReadsContent R.Source C.human (λ human m v. OfFields (bytes_of names.now) (λ fs. F.reads human R.lends fs v) m)
            self.entry self.exit.0.now) }
        ensures err { IfErr result (RefusesContentOf R.Source C.human
            (λ human. Readable (λ m v. OfFields (bytes_of names.now) (λ fs. F.reads human R.lends fs v) m)) self.entry self.exit.0.now) }
        ensures bare { is_bare self.entry ≡ true → (result ≡ Err (Error.Syntax Text.InvalidType)) × (self.exit.0.now ≡ variant_lender self.entry) }
        ensures refused { is_bare self.entry ≡ false → IfErr result (PartRefused R.Source C.human
            R.lends (RefusesFields (bytes_of names.now) F.needed F.parts) (max 1 (content_room self.entry)) (variant_lender self.entry) self.exit.0.now) }
        // As the clause of `deserialize_fields`.
        ensures memory { R.lends ≡ true → F.takes_memory R.lends ≡ false → IfErr result (λ e. e ≡ Error.OutOfMemory
            → PassesSome (bytes_of names.now) (setting_of C.human R.lends
            (part_reader (variant_lender self.entry) (content_room self.entry))) (left R.Source (variant_lender self.entry)) e) }
    {
        let Variant { de, bare, inner } = self;
        if bare {
            return Err(Error::Syntax(Text::InvalidType));
        }
        let outer = de.room;
        de.room = inner;
        de.failed = false;
        let content = de.deserialize_fields(names);
        de.room = outer;
        let fields = match content {
            Ok(fields) => fields,
            Err(e) => {
                de.levels = levels_outside(de.levels, outer, inner);
                return Err(e);
            }
        };
        Ok(fields)
    }
}
