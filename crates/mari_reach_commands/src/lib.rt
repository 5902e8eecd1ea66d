//! The program of the second form: `reach clear FOLDER [--nodes N]`, `reach check FOLDER` and `reach feed FOLDER`.
//!
//! `run_reach` is all of it over any shelf and sink. Its contract says what each answer says, and promises of each day that is
//! printed what `specs/Promise.antt` says. It stands on the books, on a day of the second form, on its check and its feed, and on how a
//! program ends.
#![tactic(auto)]

mod checking;
mod feeding;
mod program;
mod usage;
mod words;

pub use program::run_reach;
