//! What a first byte says of its message.
ghost use Rattle.std.specs.Prelude.{◌≡◌};
ghost use Rattle.rmp_wire.specs.Taking.{marker_of};
ghost use Rattle.rmp_scan.specs.Openings.{opening_of, IsNarrow};

// What the length in a head counts.
#[derive(Clone, Copy, Debug)]
pub(crate) enum Counts {
    // The bytes of a text or of bytes.
    Payload,
    // The bytes of an extension, before which its type comes.
    Extension,
    // The items of a list.
    Items,
    // The pairs of a map.
    Pairs,
}

// What a first byte says of its message.
#[derive(Clone, Copy)]
pub(crate) enum Opening {
    // `payload` bytes follow, and then `parts` messages.
    Fixed { payload: u8, parts: u8 },
    // A length of `width` bytes follows.
    Counted { counts: Counts, width: u8 },
    // The byte c1.
    Reserved,
}

#[inline(always)]
#[tactic(auto, unfolding(rmp_wire::specs::Taking::marker_of))]
pub(crate) fn read_opening(first: u8) -> Opening
    ensures is { result ≡ opening_of (marker_of first) }
    ensures narrow { IsNarrow result }
{
    match first {
        0x00..=0x7f => Opening::Fixed {
            payload: 0,
            parts: 0,
        },
        0x80..=0x8f => Opening::Fixed {
            payload: 0,
            parts: 2 * (first - 0x80),
        },
        0x90..=0x9f => Opening::Fixed {
            payload: 0,
            parts: first - 0x90,
        },
        0xa0..=0xbf => Opening::Fixed {
            payload: first - 0xa0,
            parts: 0,
        },
        0xc0 => Opening::Fixed {
            payload: 0,
            parts: 0,
        },
        0xc1 => Opening::Reserved,
        0xc2 => Opening::Fixed {
            payload: 0,
            parts: 0,
        },
        0xc3 => Opening::Fixed {
            payload: 0,
            parts: 0,
        },
        0xc4 => Opening::Counted {
            counts: Counts::Payload,
            width: 1,
        },
        0xc5 => Opening::Counted {
            counts: Counts::Payload,
            width: 2,
        },
        0xc6 => Opening::Counted {
            counts: Counts::Payload,
            width: 4,
        },
        0xc7 => Opening::Counted {
            counts: Counts::Extension,
            width: 1,
        },
        0xc8 => Opening::Counted {
            counts: Counts::Extension,
            width: 2,
        },
        0xc9 => Opening::Counted {
            counts: Counts::Extension,
            width: 4,
        },
        0xca => Opening::Fixed {
            payload: 4,
            parts: 0,
        },
        0xcb => Opening::Fixed {
            payload: 8,
            parts: 0,
        },
        0xcc => Opening::Fixed {
            payload: 1,
            parts: 0,
        },
        0xcd => Opening::Fixed {
            payload: 2,
            parts: 0,
        },
        0xce => Opening::Fixed {
            payload: 4,
            parts: 0,
        },
        0xcf => Opening::Fixed {
            payload: 8,
            parts: 0,
        },
        0xd0 => Opening::Fixed {
            payload: 1,
            parts: 0,
        },
        0xd1 => Opening::Fixed {
            payload: 2,
            parts: 0,
        },
        0xd2 => Opening::Fixed {
            payload: 4,
            parts: 0,
        },
        0xd3 => Opening::Fixed {
            payload: 8,
            parts: 0,
        },
        0xd4 => Opening::Fixed {
            payload: 2,
            parts: 0,
        },
        0xd5 => Opening::Fixed {
            payload: 3,
            parts: 0,
        },
        0xd6 => Opening::Fixed {
            payload: 5,
            parts: 0,
        },
        0xd7 => Opening::Fixed {
            payload: 9,
            parts: 0,
        },
        0xd8 => Opening::Fixed {
            payload: 17,
            parts: 0,
        },
        0xd9 => Opening::Counted {
            counts: Counts::Payload,
            width: 1,
        },
        0xda => Opening::Counted {
            counts: Counts::Payload,
            width: 2,
        },
        0xdb => Opening::Counted {
            counts: Counts::Payload,
            width: 4,
        },
        0xdc => Opening::Counted {
            counts: Counts::Items,
            width: 2,
        },
        0xdd => Opening::Counted {
            counts: Counts::Items,
            width: 4,
        },
        0xde => Opening::Counted {
            counts: Counts::Pairs,
            width: 2,
        },
        0xdf => Opening::Counted {
            counts: Counts::Pairs,
            width: 4,
        },
        0xe0..=0xff => Opening::Fixed {
            payload: 0,
            parts: 0,
        },
    }
}
