//! `mpshow` reads messages, one after another, and prints each on a line as people read it. With `--hex` it reads lines of hex, and with
//! `--pretty` it prints a line for each part, indented.
//!
//! What can't be read is told of on standard error. The exit status is 0, or 1 where some message was refused, or 2 where the run
//! ended early: the input couldn't be read, the output couldn't be written, or memory was wanting. Other arguments are refused
//! with status 2 and the usage.
#![tactic(auto)]

use canon_lines::RunFault;
use canon_lines::show::hex_lines::show_lines;
use canon_lines::show::options::{Options, options_of};
use canon_lines::show::show;
use canon_lines::task::{FAULT, status_of};
use rmp_wire::{IoSink, IoSource};
use std::io::ErrorKind;
use std::process::ExitCode;
use std::rt::Env;
use std::{env, io};

// What the arguments ask for: one that isn't UTF-8 is none that is known.
fn options_asked(rt: &(impl Env + AllocGlobal)) -> io::Result<Option<Options>> {
    match env::args(rt) {
        Ok(arguments) => {
            let arguments: Vec<String> = arguments.collect(rt.alloc())?;
            Ok(options_of(arguments.as_slice()))
        }
        Err(e) if e.kind() == ErrorKind::InvalidData => Ok(None),
        Err(e) => Err(e),
    }
}

fn main(rt: HostRuntime) -> ExitCode {
    let options = match options_asked(&rt) {
        Ok(Some(options)) => options,
        Ok(None) => {
            let _ = eprintln!(&rt; "usage: mpshow [--hex] [--pretty]");
            return ExitCode::from(FAULT);
        }
        Err(_) => return ExitCode::from(FAULT),
    };
    let mut source = IoSource::new(rt.reader());
    let mut sink = IoSink::new(io::writer(&rt));
    let mut errors = IoSink::new(rt.stderr());
    let answer = if options.hex {
        show_lines(
            rt.alloc(),
            &mut source,
            options.form,
            &mut sink,
            &mut errors,
        )
    } else {
        show(
            rt.alloc(),
            &mut source,
            options.form,
            &mut sink,
            &mut errors,
        )
    };
    ExitCode::from(status_of(&answer))
}
