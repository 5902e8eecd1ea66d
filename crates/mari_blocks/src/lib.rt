//! Blocks over several quarter hours: bids that run together or not at all, the joint market of several quarters'
//! scheduled runs, its prices, and its text.
//!
//! A page of blocks gives exactly its book, or exactly its first refusal. The books of a folder give exactly the joint
//! market that its definition names, which is valid, or exactly the first refusal of what can't be one market. Each
//! zone has the price of its interval that is nearest to the reference of its own quarter, and these prices are
//! together consistent.
#![tactic(auto)]

mod blocks;
mod checks;
mod choice;
mod clearing;
mod gates;
mod joint;
mod laws;
mod parts;
mod prices;
mod printing;
mod runs;
mod text;

pub use blocks::{BlockBook, BlockCheck};
pub use checks::{JointCheck, JointFault};
pub use clearing::{JointText, clear_joint};
pub use joint::{Joint, joint_market};
pub use laws::quarters_agree;
pub use prices::joint_prices;
pub use printing::joint_block;
pub use text::{JointBlock, QuarterBlock, joint_text, unpublished_text};
