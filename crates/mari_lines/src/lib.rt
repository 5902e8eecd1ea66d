//! One line of a day's text, both ways.
//!
//! The crate stands on the units and on the market's certificates. Its promise: a line whose numbers are in range is
//! spelled in one way, which the calls that write it append, and no other line is spelled so; any other bytes are no
//! line.
#![tactic(auto)]

mod fault;
mod line;
mod reading;
mod writing;

pub use fault::FormFault;
pub use line::{
    AmountLine, BidLine, BorderLine, Heading, Keyword, Line, MOST_LINE, MOST_MONEY, MoneyLine,
    ZoneLine,
};
pub use reading::{is_date, leading_bid, read_line, split_once};
pub use writing::{
    put_at, put_bid, put_border, put_bound, put_branch, put_conflict, put_cut, put_demand,
    put_done, put_end, put_field, put_flow_line, put_head, put_heading, put_money, put_mw_line,
    put_number_field, put_operator, put_price, put_provider, put_run, put_total_operator,
    put_total_provider, put_tree, put_unpublished, put_welfare, put_zone,
};
