//! Standard input: prints each message that arrives.
use crate::failure::Failure;
use rmp_serde::{AheadSource, Deserializer, Value};

pub fn print_all(rt: &HostRuntime) -> Result<(), Failure> {
    let mut de = Deserializer::new(rt.alloc(), AheadSource::new(rt.alloc(), rt.stdin()));
    for _ in 0..u64::MAX {
        match de.next::<Value>()? {
            Some(message) => println!(rt; "{message:?}")?,
            None => break,
        }
    }
    Ok(())
}
