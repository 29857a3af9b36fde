//! Recipes: a small program for each thing that is looked up most. docs/RECIPES.md shows the files.
#![tactic(auto)]

mod again;
mod borrowed;
mod bytes;
mod failure;
mod files;
mod hostile;
mod input;
mod made;
mod pieces;
mod reading;
mod settings;
mod sources;
mod times;

use failure::Failure;
use reading::Reading;

// What a sensor tells at these seconds.
fn samples(rt: &HostRuntime) -> Result<Vec<Reading>, Failure> {
    let mut readings = Vec::new(rt.alloc());
    for (second, celsius) in [(7, -5), (300, 21)] {
        let sensor = String::from_str(rt.alloc(), "roof")?;
        readings.push(Reading {
            second,
            sensor,
            celsius,
        })?;
    }
    Ok(readings)
}

fn main(rt: HostRuntime) -> Result<(), Failure> {
    let alloc = rt.alloc();
    let readings = samples(&rt)?;
    println!(rt;
        "{:?}",
        failure::with_names(alloc, b"\x93\x07\xa4roof\xd0\xfb")?
    )?;
    files::save(&rt, "readings", readings.as_slice())?;
    println!(rt; "{:?}", files::load(&rt, "readings")?)?;
    println!(rt; "{:?}", sources::number_then_text(alloc, b"\x05and more")?)?;
    println!(rt; "{}", again::total(alloc, readings.as_slice())?)?;
    let mut arrived = Vec::new(alloc);
    println!(rt;
        "{:?}",
        pieces::take(alloc, &mut arrived, b"\x93\x07\xa4ro")?
    )?;
    println!(rt;
        "{:?}",
        pieces::take(alloc, &mut arrived, b"of\xd0\xfb\x93")?
    )?;
    println!(rt;
        "{:?}",
        borrowed::title(alloc, b"\x92\xa3sea\xc4\x02\x00\xff")?
    )?;
    println!(rt; "{:?}", bytes::spellings(alloc)?)?;
    println!(rt; "{:?}", settings::maps(alloc, readings.as_slice())?)?;
    if let Some(first) = readings.first() {
        println!(rt; "{}", made::noted(alloc, "cold", first)?.readable())?;
    }
    println!(rt; "{:?}", hostile::careful(alloc, b"\x91\x91\xc0")?)?;
    println!(rt; "{:?}", hostile::careful(alloc, b"\x91\x91\xc0\xc0")?)?;
    if let Some(logged) = times::write_event(alloc, 1_767_225_600, 500_000_000, "started")? {
        println!(rt; "{logged:?}")?;
        println!(rt; "{:?}", times::read_event(alloc, logged.as_slice())?)?;
    }
    input::print_all(&rt)
}
