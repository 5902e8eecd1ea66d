//! What more room on a border would bring: for each published run of a day, what its gates would gain by a limit raised
//! by a number of MW, and the most that they could gain by the published prices.
//!
//! It stands on the relaxed optimum of a prefix by shortest paths, on the plain check of a printed day, and on the
//! reader of a day's text in pieces. Its promise: no activation of the published gate word in the market with that one
//! limit raised is worth more than the published welfare and the rise; the gain is by how much the best of them is worth
//! more; and there are the lines of checked blocks alone, so that the first fault, of the text or of the check, ends
//! them.
#![tactic(auto)]

mod ending;
mod gains;
mod laws;
mod lines;
mod raising;
mod rises;
mod stream;
mod worth;

pub use ending::{ValueEnd, Valued};
pub use gains::{Raised, gain, gain_from};
pub use laws::limits_are_worth;
pub use raising::Raise;
pub use rises::rise;
pub use stream::value_stream;
pub use worth::{BorderWorth, Worth};
