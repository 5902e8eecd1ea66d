//! The faults of a publication.

ghost use Rattle.std.specs.Prelude.{◌≡◌};
ghost use Rattle.mari_check.specs.Faults.{fault_number};

/// What can be wrong with the first line, a block or the totals of a printed day. Of several faults the one with the
/// least number is reported.
#[derive(Clone, Copy, Debug, Drop, PartialEq, Eq)]
pub enum Fault {
    /// The run, its quarter or its kind isn't that of the book of runs at this place; there is a block too few or too
    /// many; or, of run 0, the date or the number of quarters is another.
    Heading,
    /// The lines of zones, borders and bids don't name those of the run's market, or demands are missing or too many.
    Lines,
    /// The quantities and flows aren't feasible.
    Infeasible,
    /// The welfare isn't that of the activation.
    Welfare,
    /// The prices aren't consistent with the activation.
    Inconsistent,
    /// A least or a greatest price isn't that of the consistent prices.
    Interval,
    /// A price isn't the one of its interval that is nearest to the reference.
    Price,
    /// The number of an area is another.
    Area,
    /// The tree is no whole tree, or has more items than the budget; of an unpublished block, its count of nodes
    /// doesn't fill the budget.
    Tree,
    /// A leaf of the tree doesn't hold.
    Leaf,
    /// A rent, or a line of an operator or a provider, isn't that of the run's ledger.
    Ledger,
    /// A line of the totals isn't the sum over the published blocks.
    Totals,
}

impl Fault {
    /// The fault's number, from 1.
    pub fn number(self) -> u8
        ensures { result ≡ fault_number self }
    {
        match self {
            Fault::Heading => 1,
            Fault::Lines => 2,
            Fault::Infeasible => 3,
            Fault::Welfare => 4,
            Fault::Inconsistent => 5,
            Fault::Interval => 6,
            Fault::Price => 7,
            Fault::Area => 8,
            Fault::Tree => 9,
            Fault::Leaf => 10,
            Fault::Ledger => 11,
            Fault::Totals => 12,
        }
    }
}
