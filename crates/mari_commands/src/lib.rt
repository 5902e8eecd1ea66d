//! The commands of the program: `mari clear FOLDER [--nodes N] [--workers K]`, `mari check FOLDER`,
//! `mari generate NUMBER`, `mari migrate FOLDER borders`, `mari migrate FOLDER limits`, `mari feed FOLDER`,
//! `mari split FOLDER [--nodes N] [--workers K]`, `mari blocks FOLDER FIRST LAST [--nodes N] [--workers K]` and
//! `mari value FOLDER K`.
//!
//! `run_program` is all of them over any shelf and sink: words, the books of a folder, the text of their day, its check,
//! and bytes. Its contract carries the headline (`specs/Headline.antt`). It stands on all the crates of the program.
#![tactic(auto)]

mod books;
mod checking;
mod clearing;
mod feeding;
mod generating;
mod joining;
mod migrating;
mod outcome;
mod profile;
mod program;
mod saying;
mod summary;
mod usage;
mod valuing;

pub use mari_answers::Status;
pub use profile::profile_is_kept;
pub use program::run_program;
