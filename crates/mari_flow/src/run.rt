//! Improving until no chain is left.

ghost use Rattle.std.specs.Prelude.{IfOk};
ghost use Rattle.mari_network.specs.Network.{IsNetwork, Runs};
ghost use Rattle.mari_network.specs.Searching.{AreTightPrices};

use mari_network::{Network, find_chain, improve, margins_of, search_of};
use std::alloc::{AllocError, Global};

/// Improves until no chain is left, one chain after another, and gives the prices that show it.
pub fn run(
    alloc: Global,
    network: &Network,
    amounts: &mut [i64],
    flows: &mut [i64],
) -> Result<Vec<i64>, AllocError>
    requires network { IsNetwork network.now }
    requires runs { Runs network.now amounts.old flows.old }
    ensures runs { Runs network.now amounts.new flows.new }
    ensures tight { IfOk result (λ prices. AreTightPrices network.now amounts.new flows.new prices.items) }
{
    let mut search = search_of(alloc, network.meeting.len())?;
    loop {
        let margins = margins_of(alloc, network, amounts)?;
        match find_chain(alloc, network, amounts, flows, &margins.all, &mut search)? {
            Some(chain) => {
                improve(network, amounts, flows, &chain);
                search.hops = chain.hops;
            }
            None => return Ok(search.prices),
        }
    }
}
