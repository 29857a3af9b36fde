//! `mpcanon` reads lines of hex and prints each line's messages: the tree of each as text, and its canonical spelling in
//! hex. With `--check` it prints of each whether it is spelled canonically.
//!
//! The exit status is 0, or 1 where some line was refused, or 2 where the run ended early: the input couldn't be read,
//! the output couldn't be written, or memory was wanting. Any other argument is refused with status 2 and the usage.
#![tactic(auto)]

use canon_lines::check::check;
use canon_lines::run::run;
use canon_lines::task::{FAULT, Task, status_of, task_of};
use canon_lines::{BufSink, RunFault};
use rmp_wire::{IoSink, IoSource, SinkFault};
use std::io::ErrorKind;
use std::process::ExitCode;
use std::rt::Env;
use std::{env, io};

// What the arguments ask for: one that isn't UTF-8 is none that is known.
fn task_asked(rt: &(impl Env + AllocGlobal)) -> io::Result<Task> {
    match env::args(rt) {
        Ok(arguments) => {
            let arguments: Vec<String> = arguments.collect(rt.alloc())?;
            Ok(task_of(arguments.as_slice()))
        }
        Err(e) if e.kind() == ErrorKind::InvalidData => Ok(Task::Usage),
        Err(e) => Err(e),
    }
}

// Runs over the whole standard input, and says whether no line was refused. What is printed goes through a buffer, which is
// flushed however the run ends.
fn serve(rt: &(impl Input + Print + AllocGlobal), checks: bool) -> Result<bool, RunFault> {
    let mut source = IoSource::new(rt.reader());
    let mut sink = BufSink::new(rt.alloc(), IoSink::new(io::writer(rt)))?;
    let answer = if checks {
        check(rt.alloc(), &mut source, &mut sink)
    } else {
        run(rt.alloc(), &mut source, &mut sink)
    };
    let flushed = sink.flush();
    let accepted = answer?;
    match flushed {
        Ok(true) => Ok(accepted),
        Ok(false) => Err(RunFault::Output(io::Error::from(ErrorKind::WriteZero))),
        Err(SinkFault::Io(e)) => Err(RunFault::Output(e)),
        Err(SinkFault::Memory) => Err(RunFault::Memory),
    }
}

fn main(rt: HostRuntime) -> ExitCode {
    let status = match task_asked(&rt) {
        Ok(Task::Run) => status_of(&serve(&rt, false)),
        Ok(Task::Check) => status_of(&serve(&rt, true)),
        Ok(Task::Usage) => {
            let _ = eprintln!(&rt; "usage: mpcanon [--check]");
            FAULT
        }
        Err(_) => FAULT,
    };
    ExitCode::from(status)
}
