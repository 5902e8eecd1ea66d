//! The parts of a publication as JSON, both ways.
//!
//! The crate stands on `mari_publish`, whose parts it writes and reads, on `serde_json`, whose value of a part says what
//! its text is, and on the shelves and sinks of `mari_io`. A part is written straight into its text, item by item, since
//! the value of a whole block may take many times the block's memory. Its promise: the text of a part is the compact JSON
//! of its value, on one line; bytes that are JSON of a part in range are read as that part, whatever their spaces,
//! escapes and order of keys; any other bytes are said to be no JSON, or JSON of no part; and of a page the lines of the
//! parts before its end or its first fault are printed. What it writes of a block without its certificate tree, and how a
//! member is written, is there for the parts of another form of text.
#![tactic(auto)]

mod block;
mod fault;
mod form;
mod lines;
mod members;
mod numbers;
mod part;
mod stream;
mod text;
mod tree;
mod words;

pub use block::{put_ledger, put_market, put_outcome, put_totals};
pub use fault::FeedFault;
pub use form::Printed;
pub use part::{part_text, put_head, read_part};
pub use stream::{FeedStop, print_feed, print_line, stop_of};
pub use text::{put_end, put_first, put_first_list, put_next, put_next_list, put_string};
pub use words::Kind;
