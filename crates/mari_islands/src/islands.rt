//! The islands of a market.

ghost use Rattle.std.specs.Prelude.{◌≡◌, IfOk, map};
ghost use Rattle.std.specs.List.{All};
ghost use Rattle.mari_market.specs.Market.{IsValid};
ghost use Rattle.mari_islands.specs.Islands.{AreFirstZones, AreIslands, has_first, first_zones};
ghost use Rattle.mari_islands.specs.Part.{part_of};
ghost use Rattle.mari_islands.specs.Uniting.{AreHomes};

use crate::firsts::{firsts_of, homes_of};
use crate::part::{is_inside, island_at};
use mari_market::Market;
use mari_units::{Items, Memory};
use std::alloc::Global;

/// An island: its zones, borders, orders and gates by the numbers that they have in the whole market, in rising order,
/// and the market of its own that they are.
#[derive(Drop)]
pub struct Island {
    /// Its zones.
    pub zones: Items<u32>,
    /// The borders between its zones.
    pub borders: Items<u32>,
    /// The orders of its zones.
    pub orders: Items<u32>,
    /// The gates of these orders.
    pub gates: Items<u32>,
    /// These as a market, in which they are numbered from 0 in that order.
    pub market: Market,
}

/// The islands whose first zones are these, in their order.
fn islands_by(
    alloc: Global,
    market: &Market,
    homes: &[u32],
    firsts: &[u32],
) -> Result<Vec<Island>, Memory>
    requires valid { IsValid market.now }
    requires homes { AreHomes market.now homes.now }
    requires firsts { AreFirstZones market.now firsts.now }
    ensures { IfOk result (λ islands. islands.items ≡ map (λ first. part_of market.now (has_first firsts.now first)) (first_zones firsts.now)) }
{
    let mut islands = Vec::new(alloc);
    for zone in 0..market.zones {
        if is_inside(firsts, zone, zone) {
            let island = island_at(alloc, market, homes, firsts, zone)?;
            islands.push(island)?;
        }
    }
    Ok(islands)
}

/// The islands of a market, in the order of their first zones.
///
/// Two zones are in one island where a border over which something may flow joins them, or orders of theirs whose gates
/// are one, are in one group, or are parent and child, directly or through others. A border over which nothing may flow
/// is of no island where it lies between two. To find them takes the time of the orders and gates; to make them, that of
/// looking at each order once for each island, of which there are at most `MOST_ZONES`.
pub fn islands_of(alloc: Global, market: &Market) -> Result<Vec<Island>, Memory>
    requires { IsValid market.now }
    ensures islands { IfOk result (λ islands. AreIslands market.now islands.items) }
    ensures valid { IfOk result (λ islands. All (λ island. IsValid island.market) islands.items) }
{
    let homes = homes_of(alloc, market)?;
    let firsts = firsts_of(alloc, market, &homes)?;
    let islands = islands_by(alloc, market, &homes, &firsts)?;
    Ok(islands)
}
