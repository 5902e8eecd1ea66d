//! Records of a page with their lines, names in order of appearance, and the one loop that reads any book, or its first
//! refusal.
#![tactic(auto)]

mod books;
mod checks;
mod counts;
mod faults;
mod fields;
mod names;
mod record_fields;
mod records;
mod rows;
mod tested_rows;
mod widths;

pub use books::{BookSoFar, read_book};
pub use checks::{FileCheck, LineFault, RowCheck};
pub use counts::count_one;
pub use faults::{AddFault, BookFault, RowFault};
pub use fields::{
    cents_of, is_first_of, is_whole, is_written, number_of, read_number, read_price, writes_price,
};
pub use names::NameIndex;
pub use record_fields::Fields;
pub use rows::{Row, RowReader, Rows, has_header, read_rows, rows_of};
