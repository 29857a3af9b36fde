//! Reads a value from heads of any width.
ghost use Rattle.std.specs.Prelude.{◌≡◌, ◌≢◌, ◌⊎◌, ◌-◌, ◌<◌, ◌≤◌, ◌++◌, ◌∷◌, [], false, true, None, OnOk, OnErr, IfOk, IfErr};
ghost use Rattle.rmp_wire.specs.Heads.{fits_head};
ghost use Rattle.rmp_decode.specs.Content.{IsRawHead, IsExtHead};
ghost use Rattle.rmp_decode.specs.Exact.{TellsFault};
ghost use Rattle.rmp_decode.specs.Law.{Lawful};
ghost use Rattle.rmp_decode.specs.Refuse.{Refusal, RefusesRowFirst};
ghost use Rattle.rmp_decode.specs.Skip.{parts_head, parts_count};
ghost use Rattle.rmp_decode.specs.State.{failed_of, faults_of, is_failed, kept_of, room_of, Stays};
ghost use Rattle.rmp_decode.specs.declared.deserializer.Kept.TheVariants.{Nothing};
ghost use Rattle.rmp_serde.specs.Flat.{heads_of, IsWithin};
ghost use Rattle.rmp_serde.specs.Read.{reads_value, ItemsUtf8};
ghost use Rattle.rmp_serde.specs.ReadParts.{IsLeafHead, TakesAfter, TakesLeaf, FailsLeaf, Enters, ReadsTrees};
ghost use Rattle.rmp_serde.specs.Refuse.{UnreadFor, RefusesValue};

use crate::value::Value;
use crate::value::flat::Nodes;
use rmp_decode::{Deserialize, Deserializer, Error, ReadContent, Slices};
use rmp_wire::config::{DefaultConfig, SerializerConfig};
use rmp_wire::{Head, ReadRefReader, ReadSlice, Source};
use std::alloc::Global;

// How many messages follow the head of a list or a map: of a map two a pair.
#[inline(always)]
fn messages(is_map: bool, n: u32) -> u64
    ensures same { result ≡ parts_count is_map n }
    ensures below { result < 8589934592 }
{
    if is_map {
        2 * u64::from(n)
    } else {
        u64::from(n)
    }
}

// Reads the payload of a leaf, if it has one, to the end of the buffer.
#[inline(always)]
fn read_content<R: Source, C: SerializerConfig, P: ReadContent<R>>(
    de: &mut Deserializer<R, C>,
    head: Head,
    bytes: &mut Vec<u8>,
) -> Result<(), Error>
    requires ready { is_failed de.old ≡ false }
    requires clean { kept_of de.old ≡ Nothing }
    requires leaf { IsLeafHead head }
    ensures ok { OnOk result (TakesAfter R.Source head de.old de.new bytes.old.items bytes.new.items) }
    ensures err { IfErr result (FailsLeaf R.Source head (failed_of de.old) de.new) }
    ensures content { OnErr result (IsRawHead head ⊎ IsExtHead head) }
{
    match head {
        Head::Text(len) => de.append_text::<P>(len, bytes),
        Head::Bin(len) => de.append_content::<P>(len, bytes),
        Head::Ext(len, _) => de.append_content::<P>(len, bytes),
        _ => Ok(()),
    }
}

// Reads the payload of a leaf, and makes a node of its head and payload.
#[inline(always)]
fn read_leaf<R: Source, C: SerializerConfig, P: ReadContent<R>>(
    de: &mut Deserializer<R, C>,
    head: Head,
    made: &mut Nodes,
) -> Result<(), Error>
    requires ready { is_failed de.old ≡ false }
    requires clean { kept_of de.old ≡ Nothing }
    requires leaf { IsLeafHead head }
    requires fits { fits_head head }
    requires within { IsWithin made.old }
    ensures ok { OnOk result (TakesLeaf R.Source head de.old de.new (heads_of made.old) (heads_of made.new)) }
    ensures within { OnOk result (IsWithin made.new) }
    ensures err { IfErr result (λ e. (e ≡ Error.OutOfMemory) ⊎ FailsLeaf R.Source head (failed_of de.old) de.new e) }
    ensures fault { IfErr result (TellsFault (faults_of R.Source de.old) (faults_of R.Source de.new)) }
    ensures failed { OnErr result (is_failed de.new ≡ true) }
    ensures stays { OnErr result (Stays R.Source de.old de.new) }
{
    made.make_room_for_content(head);
    let at = made.bytes.len();
    match read_content::<R, C, P>(de, head, &mut made.bytes) {
        Ok(()) => match made.push(head, at) {
            Ok(()) => Ok(()),
            Err(_) => Err(de.refuse(Error::OutOfMemory)),
        },
        Err(e) => Err(e),
    }
}

// Handles the head of a list or a map, which is refused if it nests too deep. Returns the depth that is left,
// and how many messages remain at it: those of the list or map if it has any, and then what remains around it
// is pushed to `outer`. Otherwise it returns `around`.
#[inline(always)]
fn enter<R: Source, C: SerializerConfig>(
    de: &mut Deserializer<R, C>,
    head: Head,
    parts: (bool, u32),
    made: &mut Nodes,
    outer: &mut Vec<u64>,
    around: (u32, u64),
) -> Result<(u32, u64), Error>
    requires parts { head ≡ parts_head parts.0 parts.1 }
    requires fits { fits_head head }
    requires within { IsWithin made.old }
    ensures told { OnOk result (heads_of made.new ≡ heads_of made.old ++ (head, []) ∷ []) }
    ensures within { OnOk result (IsWithin made.new) }
    ensures deep { OnOk result (1 < around.0) }
    ensures wanted { IfOk result (λ now. Enters (parts_count parts.0 parts.1) around outer.old.items now outer.new.items) }
    ensures same { OnOk result (de.new ≡ de.old) }
    ensures err { IfErr result (λ e. (e ≡ Error.OutOfMemory) ⊎ ((e ≡ Error.DepthLimitExceeded) × (around.0 ≤ 1))) }
    ensures failed { OnErr result (de.new ≡ failed_of de.old) }
{
    let (room, wanted) = around;
    if room <= 1 {
        return Err(de.refuse(Error::DepthLimitExceeded));
    }
    if made.push(head, 0).is_err() {
        return Err(de.refuse(Error::OutOfMemory));
    }
    let inner = messages(parts.0, parts.1);
    if inner == 0 {
        return Ok(around);
    }
    if outer.push(wanted).is_err() {
        return Err(de.refuse(Error::OutOfMemory));
    }
    Ok((room - 1, inner))
}

// Reads the messages of a list or a map whose head was consumed, with all that is nested in them. It isn't
// recursive: one loop counts what remains in each open list and map.
fn read_parts<R: Source, C: SerializerConfig, P: ReadContent<R>>(
    de: &mut Deserializer<R, C>,
    count: u64,
    made: &mut Nodes,
) -> Result<(), Error>
    requires ready { is_failed de.old ≡ false }
    requires clean { kept_of de.old ≡ Nothing }
    requires deep { 1 < room_of de.old }
    requires within { IsWithin made.old }
    ensures law { ReadsTrees R.Source (room_of de.old - 1) count de.old de.new (heads_of made.old) (heads_of made.new) result }
    ensures within { OnOk result (IsWithin made.new) }
    ensures refusal { IfErr result (λ e. e ≢ Error.OutOfMemory
        → RefusesRowFirst R.Source UnreadFor ItemsUtf8 (room_of de.old - 1) count de.old de.new e) }
    ensures fault { IfErr result (TellsFault (faults_of R.Source de.old) (faults_of R.Source de.new)) }
{
    // The depth that is left for the messages of the innermost list or map.
    let mut room = de.room() - 1;
    let mut wanted = count;
    // How many messages remain in each list or map around it, the outermost first.
    let mut outer: Vec<u64> = Vec::new(de.alloc());
    'parts: loop {
        if wanted == 0 {
            match outer.pop() {
                Some(n) => {
                    wanted = n;
                    room += 1;
                }
                None => return Ok(()),
            }
            continue;
        }
        wanted -= 1;
        let head = match de.deserialize_head() {
            Ok(head) => head,
            Err(e) => return Err(e),
        };
        match head.as_parts() {
            Some(parts) => match enter(de, head, parts, made, &mut outer, (room, wanted)) {
                Ok(now) => (room, wanted) = now,
                Err(e) => return Err(e),
            },
            None => match read_leaf::<R, C, P>(de, head, made) {
                Ok(()) => {}
                Err(e) => return Err(e),
            },
        }
    }
}

/// Reads a message of any kind, whose texts are UTF-8. `P` reads the content of texts, bytes and extensions.
///
/// # Errors
/// Those of `Value::read`.
pub fn read_value<R: Source, C: SerializerConfig, P: ReadContent<R>>(
    de: &mut Deserializer<R, C>,
) -> Result<Value, Error>
    ensures law { Lawful R.Source reads_value de.old de.new result }
    ensures refusal { IfErr result (RefusesValue R.Source de.old de.new) }
    ensures fault { IfErr result (TellsFault (faults_of R.Source de.old) (faults_of R.Source de.new)) }
{
    match de.deserialize_head() {
        Ok(head) => {
            let mut made = Nodes::new(de.alloc());
            match head.as_parts() {
                Some((is_map, n)) => {
                    if de.room() <= 1 {
                        return Err(de.refuse(Error::DepthLimitExceeded));
                    }
                    match read_parts::<R, C, P>(de, messages(is_map, n), &mut made) {
                        Ok(()) => Ok(Value::from_parts(head, 0, made)),
                        Err(e) => Err(e),
                    }
                }
                None => match read_content::<R, C, P>(de, head, &mut made.bytes) {
                    Ok(()) => Ok(Value::from_parts(head, 0, made)),
                    Err(e) => Err(e),
                },
            }
        }
        Err(e) => Err(e),
    }
}

impl Value {
    ghost use Rattle.rmp_wire.specs.Spelling.{Spells};
    ghost use Rattle.rmp_decode.specs.Law.{Begins, Readable};

    /// Reads the value at the front of the input, as `from_slice` does. What follows it isn't looked at. The
    /// contract says of each error what is wrong, and where.
    ///
    /// # Errors
    /// Those of `Value::read`.
    ///
    /// # Examples
    /// ```
    /// use rmp_serde::Value;
    ///
    /// let value = Value::from_slice(alloc, &[0x92, 0xcd, 0x00, 0x05, 0xa1, 0x61])?;
    /// let list = value.root();
    /// assert_eq!(rt; list.item(0).and_then(|it| it.as_whole()), Some(5));
    /// assert_eq!(rt; list.item(1).and_then(|it| it.as_str()), Some("a"));
    /// ```
    pub fn from_slice<'de>(alloc: Global, input: &'de [u8]) -> Result<Value, Error>
        // A beginning of the input spells the value, which nests below the limit; its texts are UTF-8.
        ensures ok { IfOk result (λ v. Begins Spells (λ m. reads_value m v) 1024 input.now) }
        // An error other than `OutOfMemory` means that no beginning spells such a message,
        ensures err { IfErr result (λ e. e ≢ Error.OutOfMemory → Begins Spells (Readable reads_value) 1024 input.now → ⊥) }
        // and each error names the first thing that is wrong, or where memory ran out.
        ensures refusal { IfErr result (λ e. Refusal false (UnreadFor false) ItemsUtf8 1024 e input.now) }
    {
        let mut de = Deserializer::from_read_ref(alloc, input);
        read_value::<ReadRefReader<'de>, DefaultConfig, Slices<'de>>(&mut de)
    }

    /// Reads the next value, as `deserialize` does. The contract says of each error what is wrong, and where.
    ///
    /// # Errors
    /// The first thing that is wrong. Where the input ends: `InvalidMarkerRead` before a message, `InvalidDataRead`
    /// inside of a head or its content. `TypeMismatch` at the byte c1, `Utf8Error` at a text that isn't UTF-8, and
    /// `DepthLimitExceeded` at a list or a map that would nest too deep. `OutOfMemory` at the content of a text, of
    /// bytes or of an extension, and at a list or a map.
    pub fn read<'de, R: ReadSlice<'de>, C: SerializerConfig>(
        de: &mut Deserializer<R, C>,
    ) -> Result<Value, Error>
        ensures law { Lawful R.Source reads_value de.old de.new result }
        ensures refusal { IfErr result (RefusesValue R.Source de.old de.new) }
        // Where the source had a fault, the error says so, or that memory ran out.
        ensures fault { IfErr result (TellsFault (faults_of R.Source de.old) (faults_of R.Source de.new)) }
    {
        read_value::<R, C, Slices<'de>>(de)
    }
}

impl<'de, R: ReadSlice<'de>> Deserialize<'de, R> for Value {
    ghost use Rattle.rmp_decode.specs.Exact.{UnlessFault};
    ghost use Rattle.rmp_decode.specs.Refuse.{RefusedFor};

    ghost reads = { λ human lends. reads_value };

    ghost absent = { None };

    ghost refuses = { λ s before after known e. UnlessFault before after e (RefusedFor s.strict (UnreadFor s.strict) ItemsUtf8 s.room e known) };

    fn deserialize<C: SerializerConfig>(de: &mut Deserializer<R, C>) -> Result<Value, Error> {
        Value::read(de)
    }

    fn missing() -> Option<Value> {
        None
    }
}
