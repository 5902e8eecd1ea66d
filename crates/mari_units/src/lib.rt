//! Whole MW, prices, money and names: how the market files write them and how the program prints them; the limits of
//! files, markets and searches; and the list type that all public structs of the project use.
//!
//! The crate stands on std and `itoa`. Its promise: a reader answers exactly the number or the name that a text writes, or
//! exactly why it writes none, for texts of any length; a printer writes the one printed form.
#![tactic(auto)]

mod appending;
mod faults;
mod items;
mod limits;
mod name;
mod numbers;
mod printing;
mod reading;

pub use appending::{
    put, put_cents, put_euros, put_number, put_number_end, put_spaced_number, put_whole,
};
pub use faults::{Memory, NameFault, NumberFault, Refusal};
pub use items::Items;
pub use limits::{
    LAST_NUMBER, MOST_BID_MW, MOST_BIDS, MOST_BORDERS, MOST_DEMANDS, MOST_FLOW, MOST_GATES,
    MOST_MW, MOST_NAME, MOST_NODES, MOST_PAGE, MOST_PROVIDERS, MOST_QUARTERS, MOST_RAISE,
    MOST_RUNS, MOST_WORKERS, MOST_ZONES,
};
pub use name::{Name, is_name_byte, is_name_text, name_of, name_of_first, read_name};
pub use numbers::{CAP, Cents, Mw, Quarters};
pub use printing::{cents_text, euros_text, whole_text};
pub use reading::{read_cents, read_mw};
