//! The name of a search.

use std::marker::Brand;

/// One search: its incumbent, its market, its budget of nodes, and the numbers of its workers, which are those up to
/// `workers`.
///
/// Each search picks its own. The pool and its tickets carry it, so that what is done under the lock speaks of one
/// search.
pub trait SearchName {
    ghost use Rattle.std.specs.Prelude.{ℕ};
    ghost use Rattle.mari_market.specs.declared.market.Market.{Market};
    ghost use Rattle.mari_incumbent.specs.Incumbent.{IncumbentId};

    /// The incumbent that its workers share.
    ghost incumbent: { IncumbentId };

    /// The market that is searched.
    ghost market: { Market };

    /// The most nodes that it may make.
    ghost budget: { ℕ };

    /// The number of its workers.
    ghost workers: { ℕ };
}

impl SearchName for Brand {
    ghost use Rattle.mari_pool.specs.Name.{no_incumbent, no_market};

    ghost incumbent = { no_incumbent };

    ghost market = { no_market };

    ghost budget = { 1 };

    ghost workers = { 1 };
}
