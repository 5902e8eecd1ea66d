//! Improving until no chain is left.

ghost use Rattle.std.specs.Prelude.{◌≡◌, IfOk};
ghost use Rattle.mari_market.specs.Sums.{sum_along};
ghost use Rattle.mari_network.specs.Margins.{AreMarginsOf};
ghost use Rattle.mari_network.specs.Network.{IsNetwork, Runs};
ghost use Rattle.mari_network.specs.Searching.{AreTightPrices};
ghost use Rattle.mari_network.specs.Slots.{slot_gain};

use crate::drains::drain;
use mari_network::{Margins, Network, next_chain, search_of};
use std::alloc::{AllocError, Global};

/// Improves until no chain is left, and gives the prices that show it.
pub fn run(
    alloc: Global,
    network: &Network,
    amounts: &mut [i64],
    flows: &mut [i64],
    worth: &mut i128,
    margins: &mut Margins,
) -> Result<Vec<i64>, AllocError>
    // What runs and what it is worth, in quarter-cents, with its margins.
    requires network { IsNetwork network.now }
    requires runs { Runs network.now amounts.old flows.old }
    requires worth { worth.old ≡ sum_along slot_gain network.now.slots.now amounts.old }
    requires margins { AreMarginsOf network.now amounts.old margins.old }

    // The same of what runs then, for which the prices are tight.
    ensures runs { Runs network.now amounts.new flows.new }
    ensures worth { worth.new ≡ sum_along slot_gain network.now.slots.now amounts.new }
    ensures tight { IfOk result (λ prices. AreTightPrices network.now amounts.new flows.new prices.items) }
{
    let mut search = search_of(alloc, network.meeting.len())?;
    loop {
        match next_chain(alloc, network, amounts, flows, &margins.all, &mut search)? {
            Some(mut chain) => {
                drain(network, amounts, flows, worth, margins, &mut chain);
                search.hops = chain.hops;
            }
            None => return Ok(search.prices),
        }
    }
}
