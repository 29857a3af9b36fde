//! The settings of writing and reading.
ghost use Rattle.std.specs.Prelude.{◌≡◌, Bool, true, false};
ghost use Rattle.rmp_wire.specs.declared.config.BytesMode.{BytesMode};

/// Which lists of numbers are written as bytes.
#[derive(Clone, Copy, Debug, Default, PartialEq, Eq)]
pub enum BytesMode {
    /// Only values of the types for bytes.
    #[default]
    Normal,
    /// Also the items of a slice or a `Vec`, where there is at least one and each is a `u8`.
    ForceIterables,
    /// Also tuples and arrays, where the bytes are no longer than the list.
    ForceAll,
}

/// Settings that a type fixes.
pub trait SerializerConfig: Copy {
    ghost human: { Bool };

    ghost named: { Self → Bool };

    ghost mode: { Self → BytesMode };

    /// Whether types with a human-readable and a compact form are written in the human-readable form.
    fn is_human_readable(&self) -> bool
        ensures { result ≡ human };

    /// Whether structs are written as maps from field names.
    fn is_named(&self) -> bool
        ensures { result ≡ named self.now };

    /// Which lists of numbers are written as bytes.
    fn bytes(&self) -> BytesMode
        ensures { result ≡ mode self.now };
}

/// The default settings: compact forms, structs as lists, and bytes only for the types for bytes.
#[derive(Clone, Copy, Debug)]
pub struct DefaultConfig;

impl SerializerConfig for DefaultConfig {
    ghost use Rattle.rmp_wire.specs.declared.config.BytesMode.TheVariants.{Normal};

    ghost human = { false };

    ghost named = { λ _. false };

    ghost mode = { λ _. Normal };

    fn is_human_readable(&self) -> bool {
        false
    }

    fn is_named(&self) -> bool {
        false
    }

    fn bytes(&self) -> BytesMode {
        BytesMode::Normal
    }
}

/// The settings of `inner`, except that structs are written as maps from field names.
#[derive(Clone, Copy, Debug)]
pub struct StructMapConfig<C> {
    inner: C,
}

impl<C> StructMapConfig<C> {
    ghost use Rattle.rmp_wire.specs.Settings.{map_inner};

    /// Adds field names to the settings of `inner`.
    pub fn new(inner: C) -> StructMapConfig<C>
        ensures { map_inner result ≡ inner }
    {
        StructMapConfig { inner }
    }
}

impl<C: SerializerConfig> SerializerConfig for StructMapConfig<C> {
    ghost use Rattle.rmp_wire.specs.Settings.{map_inner};

    ghost human = { C.human };

    ghost named = { λ _. true };

    ghost mode = { λ c. C.mode (map_inner c) };

    fn is_human_readable(&self) -> bool {
        self.inner.is_human_readable()
    }

    fn is_named(&self) -> bool {
        true
    }

    fn bytes(&self) -> BytesMode {
        self.inner.bytes()
    }
}

/// The settings of `inner`, except that structs are written as lists.
#[derive(Clone, Copy, Debug)]
pub struct StructTupleConfig<C> {
    inner: C,
}

impl<C> StructTupleConfig<C> {
    ghost use Rattle.rmp_wire.specs.Settings.{tuple_inner};

    /// Drops field names from the settings of `inner`.
    pub fn new(inner: C) -> StructTupleConfig<C>
        ensures { tuple_inner result ≡ inner }
    {
        StructTupleConfig { inner }
    }
}

impl<C: SerializerConfig> SerializerConfig for StructTupleConfig<C> {
    ghost use Rattle.rmp_wire.specs.Settings.{tuple_inner};

    ghost human = { C.human };

    ghost named = { λ _. false };

    ghost mode = { λ c. C.mode (tuple_inner c) };

    fn is_human_readable(&self) -> bool {
        self.inner.is_human_readable()
    }

    fn is_named(&self) -> bool {
        false
    }

    fn bytes(&self) -> BytesMode {
        self.inner.bytes()
    }
}

/// The settings of `inner`, except that types with a human-readable form are written in it.
#[derive(Clone, Copy, Debug)]
pub struct HumanReadableConfig<C> {
    inner: C,
}

impl<C> HumanReadableConfig<C> {
    ghost use Rattle.rmp_wire.specs.Settings.{readable_inner};

    /// Makes the settings of `inner` human-readable.
    pub fn new(inner: C) -> HumanReadableConfig<C>
        ensures { readable_inner result ≡ inner }
    {
        HumanReadableConfig { inner }
    }
}

impl<C: SerializerConfig> SerializerConfig for HumanReadableConfig<C> {
    ghost use Rattle.rmp_wire.specs.Settings.{readable_inner};

    ghost human = { true };

    ghost named = { λ c. C.named (readable_inner c) };

    ghost mode = { λ c. C.mode (readable_inner c) };

    fn is_human_readable(&self) -> bool {
        true
    }

    fn is_named(&self) -> bool {
        self.inner.is_named()
    }

    fn bytes(&self) -> BytesMode {
        self.inner.bytes()
    }
}

/// The settings of `inner`, except that types with a compact form are written in it.
#[derive(Clone, Copy, Debug)]
pub struct BinaryConfig<C> {
    inner: C,
}

impl<C> BinaryConfig<C> {
    ghost use Rattle.rmp_wire.specs.Settings.{binary_inner};

    /// Makes the settings of `inner` compact.
    pub fn new(inner: C) -> BinaryConfig<C>
        ensures { binary_inner result ≡ inner }
    {
        BinaryConfig { inner }
    }
}

impl<C: SerializerConfig> SerializerConfig for BinaryConfig<C> {
    ghost use Rattle.rmp_wire.specs.Settings.{binary_inner};

    ghost human = { false };

    ghost named = { λ c. C.named (binary_inner c) };

    ghost mode = { λ c. C.mode (binary_inner c) };

    fn is_human_readable(&self) -> bool {
        false
    }

    fn is_named(&self) -> bool {
        self.inner.is_named()
    }

    fn bytes(&self) -> BytesMode {
        self.inner.bytes()
    }
}
