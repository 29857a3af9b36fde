//! How the types of tasks.rt are written and read. Written by tools/derive.py.
//!
//! Sum of Order: 477bccb8.
//! Sum of Span: 99bc5e9e.
//! Sum of Task: 7ab6bbfa.
ghost use Rattle.rmp_decode.specs.EnumRefusing.{RefusesEnum, no_content};
ghost use Rattle.rmp_decode.specs.FieldRefusing.{RefusesFields};
ghost use Rattle.rmp_decode.specs.Fields.{OfFields, Field, Absent, NoField};
ghost use Rattle.rmp_decode.specs.Law.{Lawful};
ghost use Rattle.rmp_decode.specs.Options.{IsOption};
ghost use Rattle.rmp_decode.specs.Read.{IsUnsigned, IsSigned};
ghost use Rattle.rmp_decode.specs.Refusing.{part_of};
ghost use Rattle.rmp_decode.specs.Rows.{AndThen, NoMore};
ghost use Rattle.rmp_decode.specs.Seq.{OfRow};
ghost use Rattle.rmp_decode.specs.Variants.{OfVariant, Case, NoCase, Bare};
ghost use Rattle.rmp_encode.specs.Data.{unit_variant};
ghost use Rattle.rmp_encode.specs.Refusals.{OfParts, OfSink, OfLength};
ghost use Rattle.rmp_encode.specs.Sizes.{one_of};
ghost use Rattle.rmp_encode.specs.Trees.{structure_of, forces_slices, forces_all};
ghost use Rattle.rmp_recursive.specs.Parts.{Row, Boxed};
ghost use Rattle.rmp_round_trip.specs.AlikeData.{option_alike, variant_alike};
ghost use Rattle.rmp_round_trip.specs.LeafRounds.{unsigned_row_32, pos_other};
ghost use Rattle.rmp_round_trip.specs.OnlyFields.{AtPlace, AnyContent, field_only, fields_both, last_field, variant_both};
ghost use Rattle.rmp_round_trip.specs.OnlyLeaves.{unsigned_only};
ghost use Rattle.rmp_round_trip.specs.OnlyRows.{lowers_then, option_only};
ghost use Rattle.rmp_round_trip.specs.RoundTrip.{Only};
ghost use Rattle.rmp_round_trip.specs.Rounds.{option_some, option_row};
ghost use Rattle.rmp_round_trip.specs.StructRounds.{structure_all, structure_row, structure_other, fields_none, fields_cons};
ghost use Rattle.rmp_round_trip.specs.VariantRounds.{bare_row, bare_other};
ghost use Rattle.rmp_wire.specs.Msg.{nil};
ghost use Rattle.std.proofs.Common.{refl};
ghost use Rattle.std.specs.Option.{is_none};
ghost use Rattle.std.specs.Prelude.{◌≡◌, ◌∷◌, [], None, Some, codes, false, ⊤, pos, negsuc};
ghost use Rattle.test_recursive.specs.OrderLeaf.{IsOrder};
ghost use Rattle.test_recursive.specs.SpanLeaf.{IsSpan};
ghost use Rattle.test_recursive.specs.TaskLevels.{IsTask, task_data, task_fits, TaskRowMove, TaskRowAfter, TaskWaitRead, TaskRunRead};
ghost use Rattle.test_recursive.specs.TaskRounds.{SameTask, task_some, task_round, task_only, task_other};
ghost use Rattle.test_recursive.specs.declared.tasks.Order.TheVariants as the_order;
ghost use Rattle.test_recursive.specs.declared.tasks.TheConstants.{LEAST};

use super::{LEAST, Order, Span, Task};
use rmp_decode::{Deserialize, Deserializer, ReadContent, ReadPlaces, Slices};
use rmp_encode::{Serialize, Serializer};
use rmp_round_trip::{NeverNil, RoundTrip};
use rmp_wire::config::SerializerConfig;
use rmp_wire::{ReadSlice, Sink, Source};

fn read_i16<R: Source, C: SerializerConfig>(
    de: &mut Deserializer<R, C>,
) -> Result<i16, rmp_decode::Error>
    ensures law { Lawful R.Source (λ m v. IsSigned (negsuc 32767) (pos 32767) m v) de.old de.new result }
{
    de.deserialize_i16()
}

// How leaves are read. A function that calls itself may have no bound that names a lifetime, so it has this one, and is called with `Slices`.
trait ReadLeaves<R: Source> {
    fn read_task_move_values<C: SerializerConfig>(
        de: &mut Deserializer<R, C>,
    ) -> Result<(i32, i32), rmp_decode::Error>
        ensures law { Lawful R.Source (λ m v. TaskRowMove m v) de.old de.new result };

    fn read_option_tuple_u32_u32<C: SerializerConfig>(
        de: &mut Deserializer<R, C>,
    ) -> Result<Option<(u32, u32)>, rmp_decode::Error>
        ensures law { Lawful R.Source (λ m v. IsOption (λ j q. OfRow
            (AndThen (λ k. IsUnsigned 4294967295 k q.0) (AndThen (λ k. IsUnsigned 4294967295 k q.1) NoMore)) j) m v) de.old de.new result };

    fn read_task_wait_fields<C: SerializerConfig>(
        de: &mut Deserializer<R, C>,
    ) -> Result<(u16, Vec<String>), rmp_decode::Error>
        ensures law { Lawful R.Source (λ m v. TaskWaitRead m v) de.old de.new result };

    fn read_order<C: SerializerConfig>(
        de: &mut Deserializer<R, C>,
    ) -> Result<Order, rmp_decode::Error>
        ensures law { Lawful R.Source (λ m v. IsOrder m v) de.old de.new result };

    fn read_span<C: SerializerConfig>(
        de: &mut Deserializer<R, C>,
    ) -> Result<Span, rmp_decode::Error>
        ensures law { Lawful R.Source (λ m v. IsSpan m v) de.old de.new result };
}

impl<'de, R: ReadSlice<'de>> ReadLeaves<R> for Slices<'de> {
    fn read_task_move_values<C: SerializerConfig>(
        de: &mut Deserializer<R, C>,
    ) -> Result<(i32, i32), rmp_decode::Error> {
        Deserialize::deserialize(de)
    }

    fn read_option_tuple_u32_u32<C: SerializerConfig>(
        de: &mut Deserializer<R, C>,
    ) -> Result<Option<(u32, u32)>, rmp_decode::Error> {
        Deserialize::deserialize(de)
    }

    fn read_task_wait_fields<C: SerializerConfig>(
        de: &mut Deserializer<R, C>,
    ) -> Result<(u16, Vec<String>), rmp_decode::Error> {
        let read: Result<(u16, (Vec<String>, ())), rmp_decode::Error> = de.deserialize_fields(&[
            "atLeast", "thenCall",
        ]);
        match read {
            Ok(parts) => {
                let (value0, (value1, ())) = parts;
                Ok((value0, value1))
            }
            Err(e) => Err(e),
        }
    }

    fn read_order<C: SerializerConfig>(
        de: &mut Deserializer<R, C>,
    ) -> Result<Order, rmp_decode::Error> {
        Deserialize::deserialize(de)
    }

    fn read_span<C: SerializerConfig>(
        de: &mut Deserializer<R, C>,
    ) -> Result<Span, rmp_decode::Error> {
        Deserialize::deserialize(de)
    }
}

impl Serialize for Task {
    ghost data_of = { λ v human. task_data v };

    ghost is_value = { λ v. task_fits v };

    ghost takes_memory = { λ s. one_of (forces_slices s.bytes ∷ (forces_all s.bytes ∷ [])) };

    ghost refuses = { λ _. OfLength ⊤ };

    #[tactic(auto, unfolding(rmp_encode::specs::Data::lower))]
    #[cycle(task_writing)]
    fn serialize<W: Sink, C: SerializerConfig>(
        &self,
        se: &mut Serializer<W, C>,
    ) -> Result<(), rmp_encode::Error> {
        match self {
            Task::Idle => se.serialize_unit_variant("Task", 0, "Idle"),
            Task::Move(first, second) => {
                let mut parts = se.serialize_tuple_variant("Task", 1, "Move", 2)?;
                parts.serialize_element(first)?;
                parts.serialize_element(second)?;
                parts.end()
            }
            Task::After(first, second) => {
                let mut parts = se.serialize_tuple_variant("Task", 2, "After", 2)?;
                parts.serialize_element(first)?;
                parts.serialize_element(second)?;
                parts.end()
            }
            Task::Wait {
                at_least,
                then_call,
            } => {
                let mut fields = se.serialize_struct_variant("Task", 3, "Wait", 2)?;
                fields.serialize_field("atLeast", at_least)?;
                fields.serialize_field("thenCall", then_call)?;
                fields.end()
            }
            Task::Run {
                order,
                span,
                least,
                steps,
                otherwise,
            } => {
                let mut fields = se.serialize_struct_variant("Task", 4, "Run", 5)?;
                fields.serialize_field("order", order)?;
                fields.serialize_field("span", span)?;
                fields.serialize_field("least", least)?;
                fields.serialize_field("steps", steps)?;
                fields.serialize_field("otherwise", otherwise)?;
                fields.end()
            }
        }
    }

    #[tactic(auto, using(crate::proofs::TaskLevels::task_no_byte))]
    fn as_u8(&self, _human: bool) -> Option<u8> {
        match self {
            Task::Idle => None,
            Task::Move(_, _) => None,
            Task::After(_, _) => None,
            Task::Wait { .. } => None,
            Task::Run { .. } => None,
        }
    }
}

// Reads a `Task`.
#[cycle(task_reading)]
fn read_task<R: Source, C: SerializerConfig, P: ReadContent<R> + ReadPlaces<R> + ReadLeaves<R>>(
    de: &mut Deserializer<R, C>,
) -> Result<Task, rmp_decode::Error>
    ensures law { Lawful R.Source IsTask de.old de.new result }
{
    match de.deserialize_enum_by::<P>(&["Idle", "Move", "After", "Wait", "Run"]) {
        Ok((0, variant)) => match variant.unit_variant() {
            Ok(()) => Ok(Task::Idle),
            Err(e) => Err(e),
        },
        Ok((1, variant)) => match variant.newtype_variant_with(
            |de: &mut Deserializer<R, C>| -> Result<(i32, i32), rmp_decode::Error>
                ensures law { Lawful R.Source (λ m v. TaskRowMove m v) de.old de.new result }
            { P::read_task_move_values::<C>(de) },
        ) {
            Ok((first, second)) => Ok(Task::Move(first, second)),
            Err(e) => Err(e),
        },
        Ok((2, variant)) => match variant.newtype_variant_with(
            |de: &mut Deserializer<R, C>| -> Result<
                (Option<(u32, u32)>, Box<Task>),
                rmp_decode::Error,
            >
                ensures law { Lawful R.Source (λ m v. TaskRowAfter IsTask m v) de.old de.new result }
            { read_task_after_values::<R, C, P>(de) },
        ) {
            Ok((first, second)) => Ok(Task::After(first, second)),
            Err(e) => Err(e),
        },
        Ok((3, variant)) => match variant.newtype_variant_with(
            |de: &mut Deserializer<R, C>| -> Result<(u16, Vec<String>), rmp_decode::Error>
                ensures law { Lawful R.Source (λ m v. TaskWaitRead m v) de.old de.new result }
            { P::read_task_wait_fields::<C>(de) },
        ) {
            Ok((at_least, then_call)) => Ok(Task::Wait {
                at_least,
                then_call,
            }),
            Err(e) => Err(e),
        },
        Ok((_, variant)) => match variant.newtype_variant_with(
            |de: &mut Deserializer<R, C>| -> Result<
                (Order, Span, i16, Vec<Task>, Option<Box<Task>>),
                rmp_decode::Error,
            >
                ensures law { Lawful R.Source (λ m v. TaskRunRead IsTask m v) de.old de.new result }
            { read_task_run_fields::<R, C, P>(de) },
        ) {
            Ok((order, span, least, steps, otherwise)) => Ok(Task::Run {
                order,
                span,
                least,
                steps,
                otherwise,
            }),
            Err(e) => Err(e),
        },
        Err(e) => Err(e),
    }
}

// Reads the values of a variant, one after another.
#[cycle(task_reading)]
fn read_task_after_values<
    R: Source,
    C: SerializerConfig,
    P: ReadContent<R> + ReadPlaces<R> + ReadLeaves<R>,
>(de: &mut Deserializer<R, C>) -> Result<(Option<(u32, u32)>, Box<Task>), rmp_decode::Error>
    ensures law { Lawful R.Source (λ m v. TaskRowAfter IsTask m v) de.old de.new result }
{
    let mut seq = match de.deserialize_seq() {
        Ok(seq) => seq,
        Err(e) => return Err(e),
    };
    let first = match seq.next_element_with(
        |de: &mut Deserializer<R, C>| -> Result<Option<(u32, u32)>, rmp_decode::Error>
            ensures law { Lawful R.Source (λ m v. IsOption (λ j q. OfRow
                (AndThen (λ k. IsUnsigned 4294967295 k q.0) (AndThen (λ k. IsUnsigned 4294967295 k q.1) NoMore)) j) m v) de.old de.new result }
        { P::read_option_tuple_u32_u32::<C>(de) },
    ) {
        Ok(Some(value)) => value,
        Ok(None) => return Err(rmp_decode::Error::Syntax(rmp_decode::Text::InvalidLength)),
        Err(e) => return Err(e),
    };
    let second = match seq.next_element_with(
        |de: &mut Deserializer<R, C>| -> Result<Box<Task>, rmp_decode::Error>
            ensures law { Lawful R.Source (λ m v. IsTask m v.value) de.old de.new result }
        { read_task_box::<R, C, P>(de) },
    ) {
        Ok(Some(value)) => value,
        Ok(None) => return Err(rmp_decode::Error::Syntax(rmp_decode::Text::InvalidLength)),
        Err(e) => return Err(e),
    };
    match seq.end() {
        Ok(()) => Ok((first, second)),
        Err(e) => Err(e),
    }
}

// Reads a boxed one.
#[cycle(task_reading)]
fn read_task_box<R: Source, C: SerializerConfig, P: ReadContent<R> + ReadPlaces<R> + ReadLeaves<R>>(
    de: &mut Deserializer<R, C>,
) -> Result<Box<Task>, rmp_decode::Error>
    ensures law { Lawful R.Source (λ m v. IsTask m v.value) de.old de.new result }
{
    let value = match read_task::<R, C, P>(de) {
        Ok(value) => value,
        Err(e) => return Err(e),
    };
    match Box::new(de.alloc(), value) {
        Ok(boxed) => Ok(boxed),
        Err(_) => Err(de.refuse(rmp_decode::Error::OutOfMemory)),
    }
}

// Reads the fields of `Run`.
#[cycle(task_reading)]
fn read_task_run_fields<
    R: Source,
    C: SerializerConfig,
    P: ReadContent<R> + ReadPlaces<R> + ReadLeaves<R>,
>(
    de: &mut Deserializer<R, C>,
) -> Result<(Order, Span, i16, Vec<Task>, Option<Box<Task>>), rmp_decode::Error>
    ensures law { Lawful R.Source (λ m v. TaskRunRead IsTask m v) de.old de.new result }
{
    let mut fields = match de.deserialize_struct(
        "Run",
        &["order", "span", "least", "steps", "otherwise"],
    ) {
        Ok(fields) => fields,
        Err(e) => return Err(e),
    };
    let mut slot0: Option<Order> = None;
    let mut slot1: Option<Span> = None;
    let mut slot2: Option<i16> = None;
    let mut slot3: Option<Vec<Task>> = None;
    let mut slot4: Option<Option<Box<Task>>> = None;
    loop {
        match fields.next_field_by::<P>() {
            Ok(Some(0)) => match fields.next_value_with(
                |de: &mut Deserializer<R, C>| -> Result<Order, rmp_decode::Error>
                    ensures law { Lawful R.Source (λ m v. IsOrder m v) de.old de.new result }
                { P::read_order::<C>(de) },
            ) {
                Ok(value) => slot0 = Some(value),
                Err(e) => return Err(e),
            },
            Ok(Some(1)) => match fields.next_value_with(
                |de: &mut Deserializer<R, C>| -> Result<Span, rmp_decode::Error>
                    ensures law { Lawful R.Source (λ m v. IsSpan m v) de.old de.new result }
                { P::read_span::<C>(de) },
            ) {
                Ok(value) => slot1 = Some(value),
                Err(e) => return Err(e),
            },
            Ok(Some(2)) => match fields.next_value_with(read_i16::<R, C>) {
                Ok(value) => slot2 = Some(value),
                Err(e) => return Err(e),
            },
            Ok(Some(3)) => match fields.next_value_with(
                |de: &mut Deserializer<R, C>| -> Result<Vec<Task>, rmp_decode::Error>
                    ensures law { Lawful R.Source (λ m v. Row IsTask m v.items) de.old de.new result }
                { read_task_list::<R, C, P>(de) },
            ) {
                Ok(value) => slot3 = Some(value),
                Err(e) => return Err(e),
            },
            Ok(Some(_)) => match fields.next_value_with(
                |de: &mut Deserializer<R, C>| -> Result<Option<Box<Task>>, rmp_decode::Error>
                    ensures law { Lawful R.Source (λ m v. IsOption (Boxed IsTask) m v) de.old de.new result }
                { read_task_option::<R, C, P>(de) },
            ) {
                Ok(value) => slot4 = Some(value),
                Err(e) => return Err(e),
            },
            Ok(None) => break,
            Err(e) => return Err(e),
        }
    }
    let value0 = match fields.given_or("order", slot0, None) {
        Ok(value) => value,
        Err(e) => return Err(e),
    };
    let value1 = match fields.given_or("span", slot1, None) {
        Ok(value) => value,
        Err(e) => return Err(e),
    };
    let value2 = match fields.given_or("least", slot2, Some(LEAST)) {
        Ok(value) => value,
        Err(e) => return Err(e),
    };
    let value3 = match fields.given_or("steps", slot3, None) {
        Ok(value) => value,
        Err(e) => return Err(e),
    };
    let value4 = match fields.given_or("otherwise", slot4, Some(None)) {
        Ok(value) => value,
        Err(e) => return Err(e),
    };
    match fields.end() {
        Ok(()) => Ok((value0, value1, value2, value3, value4)),
        Err(e) => Err(e),
    }
}

// Reads a list of them.
#[cycle(task_reading)]
fn read_task_list<
    R: Source,
    C: SerializerConfig,
    P: ReadContent<R> + ReadPlaces<R> + ReadLeaves<R>,
>(de: &mut Deserializer<R, C>) -> Result<Vec<Task>, rmp_decode::Error>
    ensures law { Lawful R.Source (λ m v. Row IsTask m v.items) de.old de.new result }
{
    let mut items = Vec::new(de.alloc());
    let mut seq = de.deserialize_seq()?;
    while let Some(item) = seq.next_element_with(
        |de: &mut Deserializer<R, C>| -> Result<Task, rmp_decode::Error>
            ensures law { Lawful R.Source (λ m v. IsTask m v) de.old de.new result }
        { read_task::<R, C, P>(de) },
    )? {
        items.push(item)?;
    }
    seq.end()?;
    Ok(items)
}

// Reads nil as none, or else a boxed one.
#[cycle(task_reading)]
fn read_task_option<
    R: Source,
    C: SerializerConfig,
    P: ReadContent<R> + ReadPlaces<R> + ReadLeaves<R>,
>(de: &mut Deserializer<R, C>) -> Result<Option<Box<Task>>, rmp_decode::Error>
    ensures law { Lawful R.Source (λ m v. IsOption (Boxed IsTask) m v) de.old de.new result }
{
    de.deserialize_option_with(
        |de: &mut Deserializer<R, C>| -> Result<Box<Task>, rmp_decode::Error>
            ensures law { Lawful R.Source (λ m v. IsTask m v.value) de.old de.new result }
        { read_task_box::<R, C, P>(de) },
    )
}

impl<'de, R: ReadSlice<'de>> Deserialize<'de, R> for Task {
    ghost reads = { λ human lends. IsTask };

    ghost absent = { None };

    fn deserialize<C: SerializerConfig>(
        de: &mut Deserializer<R, C>,
    ) -> Result<Task, rmp_decode::Error> {
        read_task::<R, C, Slices<'de>>(de)
    }

    fn missing() -> Option<Task> {
        None
    }
}

impl<'de, R: ReadSlice<'de>> RoundTrip<'de, R> for Task {
    ghost has_data = { λ human v. task_some v };

    ghost round = { λ lent s v fits. task_round s v fits };

    ghost same = { SameTask };

    ghost alike = { λ human v w h. h };

    ghost only = { λ s v fits. task_only s v fits };
}

impl NeverNil for Task {
    ghost never_nil = { λ s v. task_other s v };
}

impl Serialize for Order {
    ghost data_of = { λ v human. elim v [
      | the_order.Together ↦ Some (unit_variant (codes "Together"))
      | the_order.InTurn ↦ Some
          (unit_variant (codes "one-by-one"))
    ] };

    ghost is_value = { λ v. elim v [ the_order.Together ↦ ⊤ | the_order.InTurn ↦ ⊤ ] };

    ghost takes_memory = { λ s. false };

    ghost refuses = { λ v. OfSink };

    #[tactic(auto, unfolding(rmp_encode::specs::Data::lower))]
    fn serialize<W: Sink, C: SerializerConfig>(
        &self,
        se: &mut Serializer<W, C>,
    ) -> Result<(), rmp_encode::Error> {
        match self {
            Order::Together => se.serialize_unit_variant("Order", 0, "Together"),
            Order::InTurn => se.serialize_unit_variant("Order", 1, "one-by-one"),
        }
    }

    fn as_u8(&self, _human: bool) -> Option<u8> {
        None
    }
}

impl<'de, R: ReadSlice<'de>> Deserialize<'de, R> for Order {
    ghost reads = { λ human lends m v. OfVariant (codes "Together" ∷ (codes "one-by-one" ∷ []))
        (Case (λ c. (v ≡ the_order.Together) × Bare c) (Case (λ c. (v ≡ the_order.InTurn) × Bare c) NoCase)) m };

    ghost absent = { None };

    ghost refuses = { RefusesEnum (codes "Together" ∷ (codes "one-by-one" ∷ [])) (no_content ∷ (no_content ∷ [])) };

    fn deserialize<C: SerializerConfig>(
        de: &mut Deserializer<R, C>,
    ) -> Result<Order, rmp_decode::Error> {
        match de.deserialize_enum(&["Together", "one-by-one"]) {
            Ok((0, variant)) => match variant.unit_variant() {
                Ok(()) => return Ok(Order::Together),
                Err(e) => return Err(e),
            },
            Ok((_, variant)) => match variant.unit_variant() {
                Ok(()) => return Ok(Order::InTurn),
                Err(e) => return Err(e),
            },
            Err(e) => return Err(e),
        }
    }

    fn missing() -> Option<Order> {
        None
    }
}

impl<'de, R: ReadSlice<'de>> RoundTrip<'de, R> for Order {
    ghost has_data = { λ human. elim [ the_order.Together ↦ refl | the_order.InTurn ↦ refl ] };

    ghost round = { λ lent s. let names = codes "Together" ∷ (codes "one-by-one" ∷ [])
        in elim [
          | the_order.Together ↦ λ fits. bare_row s names (codes "Together") 0 refl _ (refl, tt)
          | the_order.InTurn ↦ λ fits. bare_row s names
              (codes "one-by-one") 1 refl _ (refl, tt)
        ] };

    ghost same = { λ v w. elim v [ the_order.Together ↦ (w ≡ the_order.Together) | the_order.InTurn ↦ (w ≡ the_order.InTurn) ] };

    ghost alike = { λ human. elim [
      | the_order.Together ↦ λ w h. variant_alike (λ x. ⟦<Order as Serialize>⟧.data_of x human) w the_order.Together h
          (λ i. Some (unit_variant (codes "Together")))
      | the_order.InTurn ↦ λ w h. variant_alike (λ x. ⟦<Order as Serialize>⟧.data_of x human) w
          the_order.InTurn h (λ i. Some (unit_variant (codes "one-by-one")))
    ] };

    ghost only = { λ s. let names = codes "Together" ∷ (codes "one-by-one" ∷ [])
        in elim [
          | the_order.Together ↦ λ fits. lowers_then s (Some (unit_variant (codes "Together"))) (OfVariant names (AtPlace 0 AnyContent)) (λ m. (w : _)
              → (⟦<Order as Deserialize<'de, R>>⟧.reads s.human R.lends) m w
              → (w ≡ the_order.Together)) (bare_row s names (codes "Together") 0 refl (AtPlace 0 AnyContent) (refl, tt))
              (λ m q w r. variant_both names 0 AnyContent _ _ m q r (λ c a b. b.0))
          | the_order.InTurn ↦ λ fits. lowers_then s
              (Some (unit_variant (codes "one-by-one"))) (OfVariant names (AtPlace 1 AnyContent)) (λ m. (w : _)
              → (⟦<Order as Deserialize<'de, R>>⟧.reads s.human R.lends) m w
              → (w ≡ the_order.InTurn)) (bare_row s names (codes "one-by-one") 1 refl (AtPlace 1 AnyContent) (refl, tt))
              (λ m q w r. variant_both names 1 AnyContent _ _ m q r (λ c a b. b.0))
        ] };
}

impl NeverNil for Order {
    ghost never_nil = { λ s. elim [ the_order.Together ↦ bare_other s (codes "Together") | the_order.InTurn ↦ bare_other s (codes "one-by-one") ] };
}

impl Serialize for Span {
    ghost data_of = { λ v human. structure_of ((codes "first", ⟦<u32 as Serialize>⟧.data_of v.first human)
        ∷ ((codes "last", ⟦<Option<u32> as Serialize>⟧.data_of v.last human) ∷ [])) };

    ghost is_value = { λ v. ⟦<u32 as Serialize>⟧.is_value v.first × ⟦<Option<u32> as Serialize>⟧.is_value v.last };

    ghost takes_memory = { λ s. one_of (⟦<u32 as Serialize>⟧.takes_memory s ∷ (⟦<Option<u32> as Serialize>⟧.takes_memory s ∷ [])) };

    ghost refuses = { λ v. OfParts ⊥ (⟦<u32 as Serialize>⟧.refuses v.first ∷ (⟦<Option<u32> as Serialize>⟧.refuses v.last ∷ [])) };

    fn serialize<W: Sink, C: SerializerConfig>(
        &self,
        se: &mut Serializer<W, C>,
    ) -> Result<(), rmp_encode::Error> {
        let parts = rmp_encode::Both {
            first: &self.first,
            second: &self.last,
        };
        se.serialize_fields("Span", &["first", "last"], &parts)
    }

    #[tactic(auto, using(rmp_encode::proofs::Fields::structure_no_byte))]
    fn as_u8(&self, _human: bool) -> Option<u8> {
        None
    }
}

impl<'de, R: ReadSlice<'de>> Deserialize<'de, R> for Span {
    ghost reads = { λ human lends m v. OfFields (codes "first" ∷ (codes "last" ∷ []))
        (Field (λ j. ⟦<u32 as Deserialize<'de, R>>⟧.reads human lends j v.first) (Absent ⟦<u32 as Deserialize<'de, R>>⟧.absent v.first)
        (Field (λ j. ⟦<Option<u32> as Deserialize<'de, R>>⟧.reads human lends j v.last) (Absent ⟦<Option<u32> as Deserialize<'de, R>>⟧.absent v.last)
        NoField)) m };

    ghost absent = { None };

    ghost refuses = { RefusesFields (codes "first" ∷ (codes "last" ∷ []))
        (is_none ⟦<u32 as Deserialize<'de, R>>⟧.absent ∷ (is_none ⟦<Option<u32> as Deserialize<'de, R>>⟧.absent ∷ []))
        (part_of ⟦<u32 as Deserialize<'de, R>>⟧.reads ⟦<u32 as Deserialize<'de, R>>⟧.refuses
        ∷ (part_of ⟦<Option<u32> as Deserialize<'de, R>>⟧.reads ⟦<Option<u32> as Deserialize<'de, R>>⟧.refuses ∷ [])) };

    #[inline(always)]
    fn deserialize<C: SerializerConfig>(
        de: &mut Deserializer<R, C>,
    ) -> Result<Span, rmp_decode::Error> {
        let read: Result<(u32, (Option<u32>, ())), rmp_decode::Error> = rmp_decode::read_fields_2(
            de,
            &["first", "last"],
        );
        match read {
            Ok(parts) => {
                let (first, (last, ())) = parts;
                return Ok(Span { first, last });
            }
            Err(e) => return Err(e),
        }
    }

    fn missing() -> Option<Span> {
        None
    }
}

impl<'de, R: ReadSlice<'de>> RoundTrip<'de, R> for Span {
    ghost has_data = { λ human v. structure_all ((codes "first", ⟦<u32 as Serialize>⟧.data_of v.first human)
        ∷ ((codes "last", ⟦<Option<u32> as Serialize>⟧.data_of v.last human) ∷ []))
        (refl, ((option_some (λ x. ⟦<u32 as Serialize>⟧.data_of x human) (λ x1. refl) v.last), tt)) };

    ghost round = { λ lent s v fits. structure_row s (codes "first" ∷ (codes "last" ∷ [])) _ _ refl
        (fields_cons s (codes "first") _ _ _ (λ j. ⟦<u32 as Deserialize<'de, R>>⟧.reads s.human R.lends j v.first)
        (Absent ⟦<u32 as Deserialize<'de, R>>⟧.absent v.first) _ (unsigned_row_32 s v.first fits.0)
        (fields_cons s (codes "last") _ _ _ (λ j. ⟦<Option<u32> as Deserialize<'de, R>>⟧.reads s.human R.lends j v.last)
        (Absent ⟦<Option<u32> as Deserialize<'de, R>>⟧.absent v.last) _
        (option_row s (λ x. ⟦<u32 as Serialize>⟧.data_of x s.human) ⟦<u32 as Serialize>⟧.is_value (⟦<u32 as Deserialize<'de, R>>⟧.reads s.human R.lends)
        (λ x3. pos_other s x3) (λ x2 h2. (unsigned_row_32 s x2 h2)) v.last fits.1) (fields_none s))) };

    ghost same = { λ v w. ⟦<u32 as RoundTrip<'de, R>>⟧.same v.first w.first × ⟦<Option<u32> as RoundTrip<'de, R>>⟧.same v.last w.last };

    ghost alike = { λ human v w h i. structure_of ((codes "first", (⟦<u32 as Serialize>⟧.data_of (h.0 i) human))
        ∷ ((
          codes "last",
          (option_alike ⟦<u32 as RoundTrip<'de, R>>⟧.same (λ x. ⟦<u32 as Serialize>⟧.data_of x human)
              (λ x3 yx3 h3 i. (⟦<u32 as Serialize>⟧.data_of (h3 i) human)) v.last w.last h.1 i),
        ) ∷ [])) };

    ghost only = { λ s v fits. lowers_then s _ _ (λ m. (w : _) → (⟦<Span as Deserialize<'de, R>>⟧.reads s.human R.lends) m w
        → ⟦<u32 as RoundTrip<'de, R>>⟧.same v.first w.first × ⟦<Option<u32> as RoundTrip<'de, R>>⟧.same v.last w.last)
        (structure_row s (codes "first" ∷ (codes "last" ∷ [])) _ _ refl
        (fields_cons s (codes "first") _ _ _ (λ j. Only (⟦<u32 as Deserialize<'de, R>>⟧.reads s.human R.lends) ⟦<u32 as RoundTrip<'de, R>>⟧.same j v.first)
        ⊥ _ (unsigned_only s 4294967295 v.first) (fields_cons s (codes "last") _ _ _
        (λ j. Only (⟦<Option<u32> as Deserialize<'de, R>>⟧.reads s.human R.lends) ⟦<Option<u32> as RoundTrip<'de, R>>⟧.same j v.last) ⊥ _
        (option_only s _ (⟦<u32 as Deserialize<'de, R>>⟧.reads s.human R.lends) ⟦<u32 as RoundTrip<'de, R>>⟧.same v.last
        (option_row s (λ x. ⟦<u32 as Serialize>⟧.data_of x s.human) ⟦<u32 as Serialize>⟧.is_value
        (Only (⟦<u32 as Deserialize<'de, R>>⟧.reads s.human R.lends) ⟦<u32 as RoundTrip<'de, R>>⟧.same) (λ x2. pos_other s x2)
        (λ x1 h1. (unsigned_only s 4294967295 x1)) v.last fits.1)) (fields_none s))))
        (λ m q w r. fields_both (codes "first" ∷ (codes "last" ∷ [])) _ _ _ m q r
        (field_only (⟦<u32 as Deserialize<'de, R>>⟧.reads s.human R.lends) ⟦<u32 as RoundTrip<'de, R>>⟧.same v.first w.first _ _ _ _
        (last_field (⟦<Option<u32> as Deserialize<'de, R>>⟧.reads s.human R.lends) ⟦<Option<u32> as RoundTrip<'de, R>>⟧.same v.last w.last _))) };
}

impl NeverNil for Span {
    ghost never_nil = { λ s v. structure_other s _ };
}
