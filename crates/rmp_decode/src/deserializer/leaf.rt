//! Messages that are only a head.
ghost use Rattle.std.specs.Prelude.{◌≡◌, pos, refl};
ghost use Rattle.rmp_wire.specs.Msg.{Msg};
ghost use Rattle.rmp_decode.specs.Kinds.{not_nil, other_kind, other_number};
ghost use Rattle.rmp_decode.specs.Read.{IsUnsigned, IsSigned};

use crate::deserializer::peek::{F32Head, F64Head, NilHead, Peek, TruthHead, Unsigned, WithSign};
use crate::deserializer::refusal::{other_kind, other_number};
use crate::error::Error;
use crate::text::Text;
use rmp_wire::{Head, Marker};

// A kind of message that is only a head.
pub(crate) trait Leaf: Peek {
    ghost use Rattle.std.specs.Prelude.{◌≡◌, ◌≢◌, pos};
    ghost use Rattle.rmp_wire.specs.Msg.{Msg};
    ghost use Rattle.rmp_wire.specs.declared.head.Head.{Head};
    ghost use Rattle.rmp_wire.specs.declared.head.Head.TheVariants.{Whole};
    ghost use Rattle.rmp_wire.specs.declared.marker.Marker.{Marker};
    ghost use Rattle.rmp_decode.specs.Leaves.{Holds, HoldsAs};
    ghost use Rattle.rmp_decode.specs.declared.error.Error.{Error};
    ghost use Rattle.rmp_decode.specs.declared.error.Error.TheVariants.{OutOfMemory};

    // what is read of a tree
    ghost reads: { Self → Msg → Self.Value → Type 0 };

    // the error of a message of another kind
    ghost refused: { Marker → Head → Error };

    // The value of a head, if it has one of this kind.
    fn held(self, head: Head) -> Option<Self::Value>
        ensures { Holds (reads self) head result };

    // The value of a number that was kept back as a byte. Kinds of numbers compare the byte: by `held`, reading bytes
    // as numbers costs more.
    fn held_byte(self, byte: u8) -> Option<Self::Value>
        ensures { Holds (reads self) (Whole (pos byte)) result };

    // The error of a head that has no value of this kind.
    fn refusal(marker: Marker, head: Head) -> Error
        ensures same { result ≡ refused marker head }
        ensures memory { result ≢ OutOfMemory };

    // what `at` finds is what the head holds
    ghost found: { (k : Self) (v : Self.Value) → Self.wants k v → HoldsAs (reads k) (Self.head k v) v };
}

impl Leaf for NilHead {
    ghost reads = { λ _ m _. m ≡ Msg.nil };

    ghost refused = { not_nil };

    ghost found = { λ _ _ _. record { tree = Msg.nil; alone = refl; value = refl } };

    #[inline(always)]
    fn held(self, head: Head) -> Option<()> {
        head.as_nil()
    }

    #[inline(always)]
    fn held_byte(self, _byte: u8) -> Option<()> {
        None
    }

    #[inline(always)]
    fn refusal(_marker: Marker, _head: Head) -> Error {
        Error::Syntax(Text::InvalidType)
    }
}

impl Leaf for TruthHead {
    ghost reads = { λ _ m t. m ≡ Msg.truth t };

    ghost refused = { other_kind };

    ghost found = { λ _ t _. record { tree = Msg.truth t; alone = refl; value = refl } };

    #[inline(always)]
    fn held(self, head: Head) -> Option<bool> {
        head.as_bool()
    }

    #[inline(always)]
    fn held_byte(self, _byte: u8) -> Option<bool> {
        None
    }

    #[inline(always)]
    fn refusal(marker: Marker, head: Head) -> Error {
        other_kind(marker, head)
    }
}

impl Leaf for F32Head {
    ghost reads = { λ _ m n. m ≡ Msg.float32 n };

    ghost refused = { other_kind };

    ghost found = { λ _ n _. record { tree = Msg.float32 n; alone = refl; value = refl } };

    #[inline(always)]
    fn held(self, head: Head) -> Option<u32> {
        head.as_f32_bits()
    }

    #[inline(always)]
    fn held_byte(self, _byte: u8) -> Option<u32> {
        None
    }

    #[inline(always)]
    fn refusal(marker: Marker, head: Head) -> Error {
        other_kind(marker, head)
    }
}

impl Leaf for F64Head {
    ghost reads = { λ _ m n. m ≡ Msg.float64 n };

    ghost refused = { other_kind };

    ghost found = { λ _ n _. record { tree = Msg.float64 n; alone = refl; value = refl } };

    #[inline(always)]
    fn held(self, head: Head) -> Option<u64> {
        head.as_f64_bits()
    }

    #[inline(always)]
    fn held_byte(self, _byte: u8) -> Option<u64> {
        None
    }

    #[inline(always)]
    fn refusal(marker: Marker, head: Head) -> Error {
        other_kind(marker, head)
    }
}

impl Leaf for Unsigned {
    ghost reads = { λ k. IsUnsigned k.most };

    ghost refused = { other_number };

    ghost found = { λ _ n w. record { tree = Msg.whole (pos n); alone = refl; value = (refl, w) } };

    #[inline(always)]
    fn held(self, head: Head) -> Option<u64> {
        match head.as_whole() {
            Some(z) => {
                if z < 0 || z > i128::from(self.most) {
                    return None;
                }
                Some(z as u64)
            }
            None => None,
        }
    }

    #[inline(always)]
    fn held_byte(self, byte: u8) -> Option<u64> {
        let n = u64::from(byte);
        if n > self.most {
            return None;
        }
        Some(n)
    }

    #[inline(always)]
    fn refusal(marker: Marker, head: Head) -> Error {
        other_number(marker, head)
    }
}

impl Leaf for WithSign {
    ghost reads = { λ k. IsSigned k.least k.most };

    ghost refused = { other_number };

    ghost found = { λ _ z w. record { tree = Msg.whole z; alone = refl; value = (refl, w.0, w.1) } };

    #[inline(always)]
    fn held(self, head: Head) -> Option<i64> {
        match head.as_whole() {
            Some(z) => {
                if z < i128::from(self.least) || z > i128::from(self.most) {
                    return None;
                }
                Some(z as i64)
            }
            None => None,
        }
    }

    #[inline(always)]
    fn held_byte(self, byte: u8) -> Option<i64> {
        let n = i64::from(byte);
        if n < self.least || n > self.most {
            return None;
        }
        Some(n)
    }

    #[inline(always)]
    fn refusal(marker: Marker, head: Head) -> Error {
        other_number(marker, head)
    }
}
