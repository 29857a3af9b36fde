//! The laws of the format, over the definitions alone. Each is the contract of a function that does nothing.
//!
//! A caller uses a law by calling its function: what the call ensures is the law, for every argument.

ghost use Rattle.std.specs.Prelude.{◌≡◌, ◌≤◌, ◌↔◌, ◌+◌, ℕ, Bool, List, ◌++◌, length, take, drop, Some, true, false};
ghost use Rattle.std.specs.Io.KnownBytes.{Consumes};
ghost use Rattle.rmp_wire.specs.declared.head.Head.{Head};
ghost use Rattle.rmp_wire.specs.Heads.{IsHead, canon_head, fits_head};
ghost use Rattle.rmp_wire.specs.Canonical.{IsCanonicalHead, IsCanonical};
ghost use Rattle.rmp_wire.specs.Cursors.{cursor_place};
ghost use Rattle.rmp_wire.specs.Msg.{Msg};
ghost use Rattle.rmp_wire.specs.Slices.{reference_bytes, is_lent};
ghost use Rattle.rmp_wire.specs.Spelling.{Spells, canon, Fits, IsBytes};
ghost use Rattle.rmp_wire.specs.Types.{bytes_of, buffer_bytes, tag_of, ext_bytes};
ghost use Rattle.rmp_decode.specs.Exact.{IsEnd};
ghost use Rattle.rmp_decode.specs.Law.{Begins, Readable};
ghost use Rattle.rmp_decode.specs.Refuse.{Refusal};
ghost use Rattle.rmp_decode.specs.declared.error.Error.{Error as ReadError};
ghost use Rattle.rmp_encode.specs.Calls.{IsSpelled, ToVecFails};
ghost use Rattle.rmp_encode.specs.Trees.{tree_of};
ghost use Rattle.rmp_encode.specs.declared.error.Error.{Error};
ghost use Rattle.rmp_encode.specs.declared.error.Error.TheVariants as errors;
ghost use Rattle.rmp_encode.specs.declared.settings.Settings.{Settings};
ghost use Rattle.rmp_scan.specs.Scans.{IsBeginning, MessageEnds};
ghost use Rattle.rmp_serde.specs.Places.{IsWhole, IsFault};
ghost use Rattle.rmp_serde.specs.Read.{reads_value, ItemsUtf8};
ghost use Rattle.rmp_serde.specs.Refuse.{UnreadFor};
ghost use Rattle.rmp_serde.specs.ValueData.{value_data};

use crate::decode::Deserialize;
pub use rmp_encode::laws::{known_and_unknown_lengths, written_is_canonical};
pub use rmp_ends::laws::ends_are_inside;
pub use rmp_round_trip::laws::{
    messages_in_turn, names_are_found, values_come_back, values_in_turn, versions_are_read,
    widths_are_alike, written_is_read,
};
use rmp_wire::{ByteBuf, Bytes, Ext, ReadSlice, Reference};

/// No head begins a different head: where two are at the beginning of one input, they are the same.
pub fn no_head_begins_another()
    ensures { (h k : Head) (a b x y : List ℕ) → IsHead h a → IsHead k b → a ++ x ≡ b ++ y → (h ≡ k) × (a ≡ b) × (x ≡ y) }
{}

/// At most one prefix of an input encodes a message, whatever follows it, and it encodes one tree.
pub fn at_most_one_message()
    ensures { (a b x y : List ℕ) (m n : Msg) → Spells a m → Spells b n → a ++ x ≡ b ++ y → (a ≡ b) × (m ≡ n) × (x ≡ y) }
{}

/// The table of canonical heads gives the one head that no other is shorter than. For a number from 0 on, it is
/// the one without a sign.
pub fn canonical_head()
    ensures { (h : Head) (a : List ℕ) → IsCanonicalHead h a ↔ (fits_head h × (a ≡ canon_head h)) }
{}

/// Each tree that fits has exactly one canonical encoding. It is an encoding of the tree, and no encoding is shorter.
pub fn canonical_spelling()
    ensures one { (b : List ℕ) (m : Msg) → IsCanonical b m ↔ (Fits m × (b ≡ canon m)) }
    ensures spells { (m : Msg) → Fits m → Spells (canon m) m }
    ensures least { (b : List ℕ) (m : Msg) → Spells b m → length (canon m) ≤ length b }
{}

/// A lenient read accepts whatever a strict read accepts, the canonical encoding of a tree, and as the same tree. A
/// strict read accepts whatever was written, which is that encoding.
pub fn strict_reading()
    ensures lenient { (b : List ℕ) (m : Msg) → IsCanonical b m → Spells b m }
    ensures one { (a b x y : List ℕ) (m n : Msg) → IsCanonical a m → Spells b n → a ++ x ≡ b ++ y → (a ≡ b) × (m ≡ n) × (x ≡ y) }
    ensures written { (m : Msg) → Fits m → IsCanonical (canon m) m }
{}

/// A tree that some bytes encode fits, and these are bytes.
pub fn spelled_fits()
    ensures fits { (b : List ℕ) (m : Msg) → Spells b m → Fits m }
    ensures bytes { (b : List ℕ) (m : Msg) → Spells b m → IsBytes b }
{}

/// A `Value` is written as its own tree, whatever the settings. So where `to_vec` returns `Ok` for a `Value`, the bytes
/// are the canonical encoding of its tree, and encode no other. `to_vec` fails only out of memory.
pub fn value_is_its_tree()
    ensures tree { (s : Settings) (m : Msg) → tree_of s (Some (value_data m)) ≡ Some m }
    ensures bytes { (s : Settings) (m : Msg) (b : List ℕ) → IsSpelled (tree_of s (Some (value_data m))) b → b ≡ canon m }
    ensures only { (s : Settings) (m n : Msg) (b : List ℕ) → IsSpelled (tree_of s (Some (value_data m))) b → Spells b n → n ≡ m }
    ensures memory { (s : Settings) (m : Msg) (e : Error) → Fits m → ToVecFails (tree_of s (Some (value_data m))) e → e ≡ errors.OutOfMemory }
{}

/// The checker has one answer for an input: at most one length is that of a whole message, at most one offset is at
/// fault, and there are never both.
pub fn one_canonical_answer()
    ensures whole { (input : List ℕ) (m n : ℕ) → IsWhole input m → IsWhole input n → m ≡ n }
    ensures fault { (input : List ℕ) (p q : ℕ) → IsFault input p → IsFault input q → p ≡ q }
    ensures never_both { (input : List ℕ) (n p : ℕ) → IsWhole input n → IsFault input p → ⊥ }
{}

/// A cursor's position moves on by the length of what each read consumes. So after reading values that were
/// written one after another, `position` is the sum of their lengths.
pub fn positions_add_up()
    ensures { (bytes more taken : List ℕ) (p q : ℕ) → cursor_place more q ≡ cursor_place bytes p
        → Consumes (Some (drop p bytes)) (Some (drop q more)) taken → q ≡ p + length taken }
{}

/// Two messages that are read as `Value` and written again are equal exactly if they encode the same tree, and a second
/// round changes nothing.
pub fn values_are_their_trees()
    ensures equal { (s t : Settings) (m n v w : Msg) (c d : List ℕ) → reads_value m v → reads_value n w
        → IsSpelled (tree_of s (Some (value_data v))) c → IsSpelled (tree_of t (Some (value_data w))) d → (c ≡ d) ↔ (m ≡ n) }
    ensures again { (s t : Settings) (m n v w : Msg) (c d : List ℕ) → reads_value m v → IsSpelled (tree_of s (Some (value_data v))) c
        → Spells c n → reads_value n w → IsSpelled (tree_of t (Some (value_data w))) d → (n ≡ m) × (d ≡ c) }
{}

/// Two values are equal exactly where their bytes are: of extensions also the types, and of references whether both are borrowed.
pub fn equality<'a, 'b>()
    ensures bytes { (a b : Bytes) → (⟦<Bytes<'a> as PartialEq>⟧.eq a b ≡ true) ↔ (bytes_of a ≡ bytes_of b) }
    ensures buffers { (a b : ByteBuf) → (⟦<ByteBuf as PartialEq>⟧.eq a b ≡ true) ↔ (buffer_bytes a ≡ buffer_bytes b) }
    ensures exts { (a b : Ext) → (⟦<Ext as PartialEq>⟧.eq a b ≡ true) ↔ ((tag_of a ≡ tag_of b) × (ext_bytes a ≡ ext_bytes b)) }
    ensures references { (a b : Reference) → (⟦<Reference<'a, 'b> as PartialEq>⟧.eq a b ≡ true)
        ↔ ((is_lent a ≡ is_lent b) × (reference_bytes a ≡ reference_bytes b)) }
{}

/// A read of a `Value` from this slice meets its end only where more bytes would complete a message: where `is_incomplete` is true of its
/// error, `message_len` of the slice is `None`. And where that is `Some`, no read of a `Value` from the slice meets its end.
pub fn an_end_is_inside_a_message(input: &[u8])
    ensures begins { (room : ℕ) (e : ReadError) → Refusal false (UnreadFor false) ItemsUtf8 room e input.now → IsEnd e → IsBeginning input.now }
    ensures whole { (room n : ℕ) (e : ReadError) → Refusal false (UnreadFor false) ItemsUtf8 room e input.now → MessageEnds input.now n → IsEnd e → ⊥ }
{}

/// Where `message_len` of an input is `Some(n)`, a read of a `T` from the first n bytes gives what a read from all of them gives: each value
/// or none, and what is read are those n bytes.
pub fn a_message_is_read_alone<'de, R: ReadSlice<'de>, T: Deserialize<'de, R>>()
    ensures same { (human lends : Bool) (input : List ℕ) (n room : ℕ) (v : T) → MessageEnds input n
        → Begins Spells (λ m. T.reads human lends m v) room (take n input) ↔ Begins Spells (λ m. T.reads human lends m v) room input }
    ensures refused { (human lends : Bool) (input : List ℕ) (n room : ℕ) → MessageEnds input n
        → Begins Spells (Readable (T.reads human lends)) room (take n input) ↔ Begins Spells (Readable (T.reads human lends)) room input }
    ensures consumed { (input : List ℕ) (n : ℕ) (b r : List ℕ) (m : Msg) → MessageEnds input n → Spells b m → input ≡ b ++ r
        → (length b ≡ n) × (b ≡ take n input) }
{}
