//! What a search finds.

ghost use Rattle.mari_market.specs.Market.{IsValid};

use crate::search::{Search, Stop};
use crate::tree::{Cutoff, prices_of};
use crate::words::closed;
use mari_market::{Market, Prefix, Prices};
use mari_reach::ReachItem;
use mari_units::{Items, Memory, Quarters};
use std::alloc::Global;

/// How a search ended, and so at what its tree is to hold.
#[derive(Clone, Copy, Debug, Drop, PartialEq, Eq)]
pub enum SearchEnd {
    /// Nothing is left: at the welfare of the best activation of the gate word, for that word.
    Whole,
    /// Some nodes are left: at this number of quarter-cents, which no activation is said to exceed.
    Open(Quarters),
}

/// What a search finds in a market. Nothing is promised of it.
#[derive(Drop)]
pub struct Sought {
    /// How it ended.
    pub end: SearchEnd,
    /// The gate word of the best activation that was found.
    pub word: Prefix,
    /// The tree, or no items where the search couldn't begin.
    pub tree: Items<ReachItem>,
    /// A potential for each zone where nothing is decided.
    pub potentials: Prices,
}

/// What is found where the search can't begin.
fn nothing(alloc: Global, market: &Market) -> Sought
    requires { IsValid market.now }
{
    Sought {
        end: SearchEnd::Open(Quarters(0)),
        word: closed(market.gates.as_slice().len() as u32),
        tree: Items::of(Vec::new(alloc)),
        potentials: Prices {
            cents: Items::of(Vec::new(alloc)),
        },
    }
}

/// So many nodes are visited first.
const NODES_ALONE: u32 = 1024;

/// Visits nodes within a budget. Where many are needed it searches near the best activation in between, and begins anew
/// with prices that it decided again and again.
fn run(
    alloc: Global,
    market: &Market,
    mut search: Search,
    budget: u32,
) -> Result<(Search, Stop), Memory>
    requires { IsValid market.now }
{
    if budget > NODES_ALONE {
        if let Stop::Done = search.run(alloc, market, NODES_ALONE)? {
            return Ok((search, Stop::Done));
        }
        if search.is_far(search.top()) {
            search.search_nearby(alloc, market, budget)?;
        }
        let (again, stop) = search.with_repeated(alloc, market)?;
        if let Stop::Done = stop {
            return Ok((again, stop));
        }
        search = again;
    }
    let stop = search.run(alloc, market, budget)?;
    Ok((search, stop))
}

/// Searches a market within a budget of nodes, for the first activation or for one that is as good as may be.
pub fn seek(alloc: Global, market: &Market, budget: u32) -> Result<Sought, Memory>
    requires { IsValid market.now }
{
    let Some(search) = Search::start(alloc, market)? else {
        return Ok(nothing(alloc, market));
    };
    let (search, stop) = run(alloc, market, search, budget)?;
    let (end, cutoff) = match stop {
        Stop::Done => (SearchEnd::Whole, Cutoff::Best),
        Stop::Left => {
            let top = search.top();
            (
                SearchEnd::Open(Quarters(i128::from(top))),
                Cutoff::Value(top),
            )
        }
    };
    let tree = search.tree(alloc, market, cutoff)?;
    let potentials = prices_of(alloc, &search.root.potentials)?;
    Ok(Sought {
        end,
        word: search.word,
        tree,
        potentials,
    })
}
