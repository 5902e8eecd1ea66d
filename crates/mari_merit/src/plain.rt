//! The clearing of one zone.

ghost use Rattle.std.specs.Prelude.{◌≡◌, ◌≤◌, [], IfOk, length, pos};
ghost use Rattle.std.specs.List.{All};
ghost use Rattle.mari_market.specs.Activation.{welfare_of};
ghost use Rattle.mari_market.specs.Clearing.{IsClearing};
ghost use Rattle.mari_market.specs.Market.{IsValid};
ghost use Rattle.mari_market.specs.Optimal.{IsAdmissible};
ghost use Rattle.mari_market.specs.Price.{IsPrice};
ghost use Rattle.mari_merit.specs.Merit.{bound_tree, IsFilled};

use crate::marginal::{cheaper, marginal_price, withdrawn};
use crate::quantities::quantities;
use mari_market::{Activation, Clearing, Leaf, MOST_ORDERS, Market, Order, Prices, TreeItem};
use mari_units::{Cents, Items, MOST_MW, Memory};
use mari_welfare::welfare;
use std::alloc::Global;

/// The marginal price of the orders, and what each of them runs at it.
#[derive(Drop)]
struct Filled {
    price: Cents,
    mw: Vec<u32>,
}

/// The marginal price of the orders, and what runs at it.
fn fill(alloc: Global, orders: &[Order]) -> Result<Filled, Memory>
    requires few { length orders.now ≤ MOST_ORDERS }
    requires small { All (λ o. o.greatest ≤ MOST_MW) orders.now }
    requires prices { All (λ o. IsPrice o.price.0) orders.now }
    ensures { IfOk result (λ filled. IsFilled orders.now filled.price.0 filled.mw.items) }
{
    let need = withdrawn(orders);
    let price = marginal_price(alloc, orders, need)?;
    let mw = quantities(alloc, orders, price, need - cheaper(orders, price))?;
    Ok(Filled { price, mw })
}

/// A certificate tree of one bound with one potential.
fn one_bound(alloc: Global, price: Cents) -> Result<Items<TreeItem>, Memory>
    ensures { IfOk result (λ tree. tree ≡ bound_tree price.0) }
{
    let potentials = Prices {
        cents: Items::of(vec![in alloc; price]?),
    };
    Ok(Items::of(vec![in alloc; TreeItem::Leaf(Leaf::Bound(potentials))]?))
}

/// The welfare of an activation, in quarter-cents, which is at least 0 at consistent prices.
fn welfare_at_least_0(market: &Market, activation: &Activation) -> u64
    requires valid { IsValid market.now }
    requires admissible { IsAdmissible market.now activation.now }
    ensures { welfare_of market.now activation.now ≡ pos result }
{
    welfare(market, activation).0 as u64
}

/// Clears a market of one zone without borders and gates, in the order of prices: the answer is optimal, so without
/// gates it is a first activation, and its certificate is one bound, the marginal price.
///
/// It takes time n log n and memory linear in the number n of orders. Welfare is in quarter-cents, quantities in MW.
pub fn clear_plain(alloc: Global, market: &Market) -> Result<Clearing, Memory>
    requires valid { IsValid market.now }
    requires zone { market.now.zones ≡ 1 }
    requires borders { market.now.borders ≡ [] }
    requires gates { market.now.gates ≡ [] }
    ensures { IfOk result (λ clearing. IsClearing market.now 1 clearing) }
{
    let filled = fill(alloc, market.orders.as_slice())?;
    let tree = one_bound(alloc, filled.price)?;
    let activation = Activation {
        mw: Items::of(filled.mw),
        flow: Items::of(Vec::new(alloc)),
    };
    let welfare = welfare_at_least_0(market, &activation);
    Ok(Clearing {
        activation,
        welfare,
        tree,
    })
}
