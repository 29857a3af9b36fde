//! What the head of a message says.
ghost use Rattle.rmp_wire.specs.Kinds.{Finds, raw_head, seq_head, parts_head, fields_head, content_len};
ghost use Rattle.std.specs.Prelude.{◌≡◌};

/// What a head says: a whole leaf, or the kind of message and how much content follows it.
///
/// A head is what the MessagePack specification calls the first byte together with the number, the length or the
/// type that follows it ("Formats").
#[derive(Clone, Copy, Debug, PartialEq, Eq)]
pub enum Head {
    /// Nil, a whole message.
    Nil,
    /// `true` or `false`, a whole message.
    Truth(bool),
    /// A whole number, from -9223372036854775808 to 18446744073709551615.
    Whole(i128),
    /// The bits of a 32-bit float.
    F32Bits(u32),
    /// The bits of a 64-bit float.
    F64Bits(u64),
    /// A text: the number of its bytes.
    Text(u32),
    /// Bytes: how many.
    Bin(u32),
    /// A list: the number of its messages.
    Array(u32),
    /// A map: the number of its pairs.
    Map(u32),
    /// An extension: the length of its data in bytes, and its type.
    Ext(u32, i8),
}

impl Head {
    /// Whether it is nil. `None` for a head of another kind.
    #[inline(always)]
    pub fn as_nil(self) -> Option<()>
        ensures { Finds (λ h _. h ≡ Head.Nil) self result }
    {
        match self {
            Head::Nil => Some(()),
            _ => None,
        }
    }

    /// The truth that it is. `None` for a head of another kind.
    #[inline(always)]
    pub fn as_bool(self) -> Option<bool>
        ensures { Finds (λ h t. h ≡ Head.Truth t) self result }
    {
        match self {
            Head::Truth(t) => Some(t),
            _ => None,
        }
    }

    /// The whole number that it is. `None` for a head of another kind.
    #[inline(always)]
    pub fn as_whole(self) -> Option<i128>
        ensures { Finds (λ h z. h ≡ Head.Whole z) self result }
    {
        match self {
            Head::Whole(z) => Some(z),
            _ => None,
        }
    }

    /// The bits of a float of 32 bits. `None` for a head of another kind.
    #[inline(always)]
    pub fn as_f32_bits(self) -> Option<u32>
        ensures { Finds (λ h n. h ≡ Head.F32Bits n) self result }
    {
        match self {
            Head::F32Bits(n) => Some(n),
            _ => None,
        }
    }

    /// The bits of a float of 64 bits. `None` for a head of another kind.
    #[inline(always)]
    pub fn as_f64_bits(self) -> Option<u64>
        ensures { Finds (λ h n. h ≡ Head.F64Bits n) self result }
    {
        match self {
            Head::F64Bits(n) => Some(n),
            _ => None,
        }
    }

    /// How many bytes a text has. `None` for a head of another kind.
    #[inline(always)]
    pub fn as_text(self) -> Option<u32>
        ensures { Finds (λ h n. h ≡ Head.Text n) self result }
    {
        match self {
            Head::Text(n) => Some(n),
            _ => None,
        }
    }

    /// How many bytes there are. `None` for a head of another kind.
    #[inline(always)]
    pub fn as_bin(self) -> Option<u32>
        ensures { Finds (λ h n. h ≡ Head.Bin n) self result }
    {
        match self {
            Head::Bin(n) => Some(n),
            _ => None,
        }
    }

    /// How many elements a list has. `None` for a head of another kind.
    #[inline(always)]
    pub fn as_array(self) -> Option<u32>
        ensures { Finds (λ h n. h ≡ Head.Array n) self result }
    {
        match self {
            Head::Array(n) => Some(n),
            _ => None,
        }
    }

    /// How many pairs a map has. `None` for a head of another kind.
    #[inline(always)]
    pub fn as_map(self) -> Option<u32>
        ensures { Finds (λ h n. h ≡ Head.Map n) self result }
    {
        match self {
            Head::Map(n) => Some(n),
            _ => None,
        }
    }

    /// How many bytes an extension has, and its type. `None` for a head of another kind.
    #[inline(always)]
    pub fn as_ext(self) -> Option<(u32, i8)>
        ensures { Finds (λ h p. h ≡ Head.Ext p.0 p.1) self result }
    {
        match self {
            Head::Ext(n, tag) => Some((n, tag)),
            _ => None,
        }
    }

    /// Of a text (`true`) or of bytes: how many bytes there are. `None` for a head of another kind.
    #[inline(always)]
    pub fn as_raw(self) -> Option<(bool, u32)>
        ensures { Finds (λ h p. h ≡ raw_head p.0 p.1) self result }
    {
        match self {
            Head::Text(n) => Some((true, n)),
            Head::Bin(n) => Some((false, n)),
            _ => None,
        }
    }

    /// Of bytes (`true`) or of a list: how many elements there are. `None` for a head of another kind.
    #[inline(always)]
    pub fn as_seq(self) -> Option<(bool, u32)>
        ensures { Finds (λ h p. h ≡ seq_head p.0 p.1) self result }
    {
        match self {
            Head::Bin(n) => Some((true, n)),
            Head::Array(n) => Some((false, n)),
            _ => None,
        }
    }

    /// Of a map (`true`) or of a list: how many pairs or elements there are. `None` for a head of another kind.
    #[inline(always)]
    pub fn as_parts(self) -> Option<(bool, u32)>
        ensures { Finds (λ h p. h ≡ parts_head p.0 p.1) self result }
    {
        match self {
            Head::Array(n) => Some((false, n)),
            Head::Map(n) => Some((true, n)),
            _ => None,
        }
    }

    /// Of bytes (`Some(true)`), of a list (`Some(false)`) or of a map (`None`): how many elements or pairs there are. `None` for a head of another kind.
    #[inline(always)]
    pub fn as_fields(self) -> Option<(Option<bool>, u32)>
        ensures { Finds (λ h p. h ≡ fields_head p.0 p.1) self result }
    {
        match self {
            Head::Bin(n) => Some((Some(true), n)),
            Head::Array(n) => Some((Some(false), n)),
            Head::Map(n) => Some((None, n)),
            _ => None,
        }
    }

    /// How many bytes of content follow it: of a text, of bytes and of an extension, and else 0.
    #[inline(always)]
    pub fn content_len(self) -> u32
        ensures { result ≡ content_len self }
    {
        match self {
            Head::Text(n) | Head::Bin(n) | Head::Ext(n, _) => n,
            _ => 0,
        }
    }
}
