//! The second form of certificate: states that decide gates and prices in any order, what follows from them for other
//! gates, for prices, for orders and for borders, and the tests of a tree of them.
#![tactic(auto)]

mod closing;
mod cuts;
mod decisions;
mod dual;
mod gains;
mod gated;
mod ladders;
mod laws;
mod leaves;
mod levels;
mod marks;
mod prices;
mod ranks;
mod root;
mod sides;
mod states;
mod survey;
mod trees;
mod walk;
mod worth;
mod zones;

pub use decisions::{Choice, Decision, ReachItem, ReachLeaf, are_decisions};
pub use dual::MOST_VALUE;
pub use laws::{by_tree, early, needed, reached, twins};
pub use leaves::check_leaf;
pub use marks::Marks;
pub use prices::PriceBox;
pub use root::root_value;
pub use states::{State, state_of};
pub use trees::check_tree;
