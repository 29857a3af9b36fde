//! A struct of five fields, written and read by hand: each way is one call.
ghost use Rattle.std.specs.Prelude.{◌∷◌, [], codes, None, Some};
ghost use Rattle.rmp_encode.specs.Trees.{structure_of};
ghost use Rattle.rmp_decode.specs.Fields.{OfFields, Field, Absent, NoField};

use rmp_decode::{Deserialize, Deserializer};
use rmp_encode::{Five, Serialize, Serializer};
use rmp_wire::config::SerializerConfig;
use rmp_wire::{ReadSlice, Sink};

/// A traveller's ticket.
#[derive(Drop)]
pub struct Ticket {
    pub holder: String,
    pub coach: u16,
    pub seat: Option<u8>,
    pub stops: Vec<u32>,
    pub paid: bool,
}

impl Serialize for Ticket {
    ghost data_of = { λ v human. structure_of (
        (codes "holder", ⟦<String as Serialize>⟧.data_of v.holder human)
        ∷ ((codes "coach", ⟦<u16 as Serialize>⟧.data_of v.coach human)
        ∷ ((codes "seat", ⟦<Option<u8> as Serialize>⟧.data_of v.seat human)
        ∷ ((codes "stops", ⟦<Vec<u32> as Serialize>⟧.data_of v.stops human)
        ∷ ((codes "paid", ⟦<bool as Serialize>⟧.data_of v.paid human) ∷ []))))) };

    ghost is_value = { λ v. ⟦<String as Serialize>⟧.is_value v.holder × ⟦<u16 as Serialize>⟧.is_value v.coach
        × ⟦<Option<u8> as Serialize>⟧.is_value v.seat × ⟦<Vec<u32> as Serialize>⟧.is_value v.stops × ⟦<bool as Serialize>⟧.is_value v.paid };

    fn serialize<W: Sink, C: SerializerConfig>(
        &self,
        se: &mut Serializer<W, C>,
    ) -> Result<(), rmp_encode::Error> {
        let values = Five {
            first: &self.holder,
            second: &self.coach,
            third: &self.seat,
            fourth: &self.stops,
            fifth: &self.paid,
        };
        se.serialize_fields(
            "Ticket",
            &["holder", "coach", "seat", "stops", "paid"],
            &values,
        )
    }

    #[tactic(auto, using(rmp_encode::proofs::Fields::structure_no_byte))]
    fn as_u8(&self, _human: bool) -> Option<u8> {
        None
    }
}

impl<'de, R: ReadSlice<'de>> Deserialize<'de, R> for Ticket {
    ghost reads = { λ human lends m v. OfFields (codes "holder" ∷ (codes "coach" ∷ (codes "seat" ∷ (codes "stops" ∷ (codes "paid" ∷ [])))))
        (Field (λ k. ⟦<String as Deserialize<'de, R>>⟧.reads human lends k v.holder) (Absent None v.holder)
        (Field (λ k. ⟦<u16 as Deserialize<'de, R>>⟧.reads human lends k v.coach) (Absent None v.coach)
        (Field (λ k. ⟦<Option<u8> as Deserialize<'de, R>>⟧.reads human lends k v.seat) (Absent (Some None) v.seat)
        (Field (λ k. ⟦<Vec<u32> as Deserialize<'de, R>>⟧.reads human lends k v.stops) (Absent None v.stops)
        (Field (λ k. ⟦<bool as Deserialize<'de, R>>⟧.reads human lends k v.paid) (Absent None v.paid) NoField))))) m };

    ghost absent = { None };

    fn deserialize<C: SerializerConfig>(
        de: &mut Deserializer<R, C>,
    ) -> Result<Ticket, rmp_decode::Error> {
        let read: Result<(String, (u16, (Option<u8>, (Vec<u32>, (bool, ()))))), rmp_decode::Error> =
            de.deserialize_fields(&["holder", "coach", "seat", "stops", "paid"]);
        match read {
            Ok(fields) => {
                let (holder, (coach, (seat, (stops, (paid, ()))))) = fields;
                Ok(Ticket {
                    holder,
                    coach,
                    seat,
                    stops,
                    paid,
                })
            }
            Err(e) => Err(e),
        }
    }

    fn missing() -> Option<Ticket> {
        None
    }
}
