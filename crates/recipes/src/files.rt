//! A file of many records, written and read one by one.
use crate::failure::Failure;
use crate::reading::Reading;
use rmp_serde::{AheadSource, Deserializer, IoSink, encode};
use std::fs;
use std::io::{BufWriter, Write};

/// Writes the readings one after another. No length is needed before a record, since each message tells its own end.
pub fn save(rt: &HostRuntime, path: &str, readings: &[Reading]) -> Result<(), Failure> {
    let file = BufWriter::new(rt.alloc(), fs::create(rt, path)?)?;
    let mut sink = IoSink::new(file);
    for reading in readings {
        encode::write(rt.alloc(), &mut sink, reading)?;
    }
    sink.get_mut().flush()?;
    Ok(())
}

/// Reads them back. The loop ends at the end of the file. If the last record was cut, it returns an error whose `is_incomplete` is true.
pub fn load(rt: &HostRuntime, path: &str) -> Result<Vec<Reading>, Failure> {
    let source = AheadSource::new(rt.alloc(), fs::open(rt, path)?);
    let mut de = Deserializer::new(rt.alloc(), source);
    let mut readings = Vec::new(rt.alloc());
    for _ in 0..u64::MAX {
        match de.next()? {
            Some(reading) => readings.push(reading)?,
            None => break,
        }
    }
    Ok(readings)
}
