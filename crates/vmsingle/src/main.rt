//! The program: a command line, standard input, standard output and the clock, handed to
//! `vm_top::run_words`.
//!
//! It decides nothing else. The adapters of `vm_system` bring the system's streams and clock under
//! the traits of `vm_outside`, and `vm_top` says what each command does.
#![tactic(auto)]

use std::process::ExitCode;
use vm_outside::{NoDisk, NoLink, NoPatterns};
use vm_system::{ReaderSource, SystemClock, WriterSink, words};
use vm_top::{Status, run_words};

/// Does what the command line asks, and ends with the number of its `Status`.
fn main(rt: HostRuntime) -> ExitCode {
    let status = match words(&rt) {
        Ok(words) => run_words(
            rt.alloc(),
            &words,
            &mut ReaderSource::new(rt.stdin()),
            &mut WriterSink::new(rt.stdout()),
            &mut WriterSink::new(rt.stderr()),
            &mut NoDisk::new(),
            &mut NoLink::new(),
            &mut SystemClock::new(rt),
            &mut NoPatterns::new(),
        ),
        Err(_) => {
            let _ = eprintln!(rt; "vmsingle: out of memory");
            Status::Memory
        }
    };
    ExitCode::from(status.exit_code())
}
