//! The program: `run_program` of `mari_commands` over real files and standard output, on the words that it was called
//! with.
#![tactic(auto)]

use mari_answers::words_of;
use mari_commands::run_program;
use mari_io::{DiskShelf, StdSink};
use mari_workers::FreeTurnstile;
use std::process::ExitCode;

/// Runs the program on its arguments, and ends with the status that it comes to.
fn main(rt: HostRuntime) -> ExitCode {
    let words = match words_of(&rt) {
        Ok(words) => words,
        Err(status) => return status.exit_code(),
    };
    let mut shelf = DiskShelf::new(rt);
    let mut sink = StdSink::new(rt);
    let status = run_program(
        &rt,
        rt.alloc(),
        &words,
        &mut shelf,
        &mut sink,
        &FreeTurnstile,
    );
    status.exit_code()
}
