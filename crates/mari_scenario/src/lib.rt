//! Generated days: the seven market files of a number.
//!
//! The crate stands on the pages of `mari_io`; its definitions and lemmas also on the books' crates and on
//! `mari_calendar`. Its promise: exactly the pages that the number's generator makes, none of them too long, each
//! accepted by its file's grammar.
//!
//! - `draws`: the next state, and the number below a bound that it gives.
//! - `text`: numbers and names, piece by piece; `lines`: a line of each file.
//! - `pages`: `scenario_pages`, the seven files of a number.
#![tactic(auto)]

mod draws;
mod lines;
mod pages;
mod text;

pub use pages::scenario_pages;
