//! What a line of the second form's text says.

use mari_lines::{Heading, Line};
use mari_units::{Cents, Name, Quarters};

/// What a run's line says of its activation.
#[derive(Clone, Copy, Debug, Drop, PartialEq, Eq)]
pub enum Claim {
    /// It is the first activation of the market.
    First,
    /// No admissible activation is better by more than this many quarter-cents.
    Within(Quarters),
}

/// A line by its kind.
#[derive(Drop)]
pub enum ReachLine {
    /// The date, the number of quarter hours, and the budget of nodes.
    Head(Name, u32, u32),
    /// A run, and what is said of its activation.
    Run(Heading, Claim),
    /// An item of a tree: the gate of the bid of this name is decided.
    Branch(Name),
    /// An item of a tree: the price of the zone of this name is at most this, or more.
    Price(Name, Cents),
    /// An item of a tree: the decisions leave nothing.
    Void,
    /// A line that the first form has too.
    Shared(Line),
}
