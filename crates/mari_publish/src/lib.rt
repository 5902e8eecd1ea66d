//! The day's text, both ways.
//!
//! The crate stands on `mari_lines`, which has one line, on the units and on the market's certificates. Its promise: a
//! publication whose numbers are in range has one text, which its parts make, and no other publication has that text;
//! any other bytes have one first fault. A text that comes in pieces gives the same parts and the same first fault,
//! wherever it is cut.
#![tactic(auto)]

mod coming;
mod fault;
mod follow;
mod held;
mod laws;
mod publication;
mod reader;
mod reading;
mod stream;
mod taking;
mod write;

pub use fault::TextFault;
pub use follow::{FollowFault, follow_line};
pub use held::{Held, Kept};
pub use laws::lines_give;
pub use mari_lines::{AmountLine, BidLine, BorderLine, Heading, MoneyLine, ZoneLine};
pub use publication::{Block, FullBlock, Part, Publication};
pub use reader::TextReader;
pub use reading::read_text;
pub use stream::{PartsSoFar, ReadStop, read_parts};
pub use taking::TakeFault;
pub use write::{
    block_text, closing_text, head_text, put_ending, put_market, put_market_lines, put_opening,
    put_tree_lines, total_text, write_text,
};
