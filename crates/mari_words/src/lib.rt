//! The words that the program is called with: which command they are, if they are one.
//!
//! The crate stands on `mari_units` and on the kit's `clap`, which reads the words. Its promise: the command that the
//! words are by a definition that knows no parser, or `Usage` exactly where they are no command.
#![tactic(auto)]

mod asking;
mod command;
mod parser;

pub use command::{Command, FilePart, USUAL_NODES, USUAL_WORKERS, WordsFault, read_words};
