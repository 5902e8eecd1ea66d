//! The day of a folder: its books, read and accepted, and the text that is printed of it.
//!
//! It stands on the books and on what clears a market, and knows neither solvers nor threads. Its promise: the books
//! are exactly those of the pages, or the first refusal; and the text is that of a day of these books.
#![tactic(auto)]

mod block;
mod calendar_page;
mod day;
mod files;
mod frame;
mod laws;
mod lines;
mod pages;
mod reading;
mod run;
mod text;

pub use block::{PublishedRun, published_run};
pub use calendar_page::DateCheck;
pub use day::{DayEnd, end_text, run_day};
pub use files::{BLOCKS, File, PUBLICATION, file_name, path_in};
pub use frame::{DaySoFar, Stop, write_day};
pub use laws::{days_keep, migration_keeps_days};
pub use reading::{BooksFault, read_books};
pub use text::{PrintedDay, day_of};
