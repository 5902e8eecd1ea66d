//! Clearing a market island by island.

ghost use Rattle.mari_market.specs.Clearing.{IsBudget};
ghost use Rattle.mari_market.specs.Market.{IsValid};
ghost use Rattle.mari_islands.specs.Cleared.{ClearsIslands, IsFirstOfWhole, OnPublished};
ghost use Rattle.mari_islands.specs.Islands.{AreIslands};

use crate::islands::Island;
use crate::join::{Joined, joined_of};
use mari_market::{Cleared, Clearer, Clearing, Market, Spent};
use mari_units::Items;
use std::alloc::Global;

/// The answer for the islands of a market.
#[derive(Drop)]
pub enum IslandsCleared {
    /// The joined activation, and the clearing of each island, in their order.
    Published(Joined, Items<Clearing>),
    /// The first island, counted from 0, that isn't published, since its search tree is larger than the budget, and the
    /// part of that tree that was built.
    Spent(u32, Spent),
    /// Out of memory.
    Memory,
}

/// Clears each island of a market within the whole budget of nodes, and joins what they run.
///
/// The clearings stand in the order of the islands. The joined activation is the first activation of the whole market,
/// and its welfare is the sum of theirs. Where an island isn't published, each island before it can be cleared within
/// the budget. Over a `Crew` the call may wait.
pub fn clear_islands<C: Clearer>(
    alloc: Global,
    market: &Market,
    islands: &[Island],
    budget: u32,
    clearer: &mut C,
) -> IslandsCleared
    requires valid { IsValid market.now }
    requires islands { AreIslands market.now islands.now }
    requires budget { IsBudget budget }
    requires ready { C.ready clearer.old }

    // What is answered for the islands.
    ensures law { ClearsIslands market.now islands.now budget result }

    // First activations of all islands are together the first activation of the whole.
    ensures first { OnPublished result (IsFirstOfWhole market.now) }

    // The clearer may clear on.
    ensures ready { C.ready clearer.new }
{
    let mut clearings = Vec::new(alloc);
    for (place, island) in islands.iter().enumerate() {
        match clearer.clear(alloc, &island.market, budget) {
            Cleared::Published(clearing) => {
                if clearings.push(clearing).is_err() {
                    return IslandsCleared::Memory;
                }
            }
            Cleared::Spent(spent) => return IslandsCleared::Spent(place as u32, spent),
            Cleared::Memory => return IslandsCleared::Memory,
        }
    }
    match joined_of(alloc, market, islands, &clearings) {
        Ok(joined) => IslandsCleared::Published(joined, Items::of(clearings)),
        Err(_) => IslandsCleared::Memory,
    }
}
