//! The program of the second form: `run_reach` of `mari_reach_commands` over real files and standard output, on the words that
//! it was called with.
#![tactic(auto)]

use mari_answers::words_of;
use mari_io::{DiskShelf, StdSink};
use mari_reach_commands::run_reach;
use std::process::ExitCode;

/// Runs the program on its arguments, and ends with the status that it comes to.
fn main(rt: HostRuntime) -> ExitCode {
    let words = match words_of(&rt) {
        Ok(words) => words,
        Err(status) => return status.exit_code(),
    };
    let mut shelf = DiskShelf::new(rt);
    let mut sink = StdSink::new(rt);
    let status = run_reach(rt.alloc(), &words, &mut shelf, &mut sink);
    status.exit_code()
}
