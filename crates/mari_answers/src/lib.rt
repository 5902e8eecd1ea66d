//! How a program ends: its status, the names of the checks by which a file is refused, and the lines that say so.
//!
//! The programs of both forms stand on it. Its promise: a refusal is said by the file, the line and the check that it has, by
//! its number and its name; and each line is taken whole, or a first part of it, or nothing, as the status says.
#![tactic(auto)]

mod arguments;
mod checks;
mod lines;
mod refusals;
mod saying;
mod status;
mod texts;

pub use arguments::words_of;
pub use checks::{MigrationCheck, TextCheck};
pub use lines::{invalid_line, page_line, pair_line, refused_line};
pub use saying::{say, say_after, say_invalid, say_no_books, say_no_page, say_refused};
pub use status::Status;
pub use texts::{say_text_fault, text_refusal};
