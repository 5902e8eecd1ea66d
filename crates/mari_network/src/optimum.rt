//! The relaxed optimum, or a cut, read from where no improving chain is left.

ghost use Rattle.std.specs.Prelude.{◌≡◌, List, ◌<◌, ◌≤◌, ◌*◌, ◌<ℤ◌, ◌≤ℤ◌, ℕ, pos, length, map, IfOk};
ghost use Rattle.std.specs.Int.{int_max};
ghost use Rattle.mari_market.specs.declared.market.Order.{Order};
ghost use Rattle.mari_market.specs.Bounds.{Span};
ghost use Rattle.mari_market.specs.Cut.{is_in, IsRising};
ghost use Rattle.mari_market.specs.Market.{IsValid};
ghost use Rattle.mari_network.specs.declared.optimum.SolveFault.TheVariants.{Memory as NoMemory};
ghost use Rattle.mari_market.specs.Sums.{int_at, sum_along};
ghost use Rattle.mari_network.specs.Network.{IsNetwork, Runs};
ghost use Rattle.mari_network.specs.Orders.{capped_cents, is_inside};
ghost use Rattle.mari_network.specs.Slots.{slot_gain};
ghost use Rattle.mari_network.specs.declared.slots.Slot.{Slot};
ghost use Rattle.mari_network.specs.Searching.{AreTightPrices};
ghost use Rattle.mari_network.specs.Solving.{FitsOrders, IsWritten, IsFoundOptimum, IsNetworkOf, AreSlotsOf};

use crate::finish::{cap_all, cut_zones, first_short, quantities, stated};
use crate::network::Network;
use mari_market::{Activation, Cut, CutSide, MOST_ORDERS, MOST_WORTH, Market, Prices};
use mari_units::{Items, MOST_ZONES, Memory};
use std::alloc::{AllocError, Global};

/// An activation of the greatest welfare within the bounds of a prefix, and potentials that show it.
///
/// The welfare is stated as 0 where it is negative, as it may be where gates are open.
#[derive(Drop)]
pub struct Solved {
    /// The activation.
    pub activation: Activation,
    /// One potential for each zone, in cents per MWh.
    pub potentials: Prices,
    /// The welfare, in quarter-cents.
    pub welfare: u64,
}

/// The relaxed optimum of a market as its network has it, and potentials that show it. It is written as an activation
/// only where one is asked for.
#[derive(Drop)]
pub struct Optimum {
    /// What each slot puts in, in MW; the market's orders stand first.
    pub amounts: Vec<i64>,
    /// What flows over each border, in MW.
    pub flows: Vec<i64>,
    /// One potential for each zone, in cents per MWh.
    pub potentials: Prices,
    /// The welfare, in quarter-cents; 0 where it is negative.
    pub welfare: u64,
}

/// Why there is no optimum.
#[derive(Drop)]
pub enum SolveFault {
    /// No activation lies within the bounds, as the cut shows.
    Cut(Cut),
    /// Out of memory.
    Memory,
}

impl From<AllocError> for SolveFault {
    ghost from_gives = { λ _ fault. fault ≡ NoMemory };

    fn from(_: AllocError) -> Self {
        SolveFault::Memory
    }
}

impl From<Memory> for SolveFault {
    ghost from_gives = { λ _ fault. fault ≡ NoMemory };

    fn from(_: Memory) -> Self {
        SolveFault::Memory
    }
}

impl Optimum {
    /// The activation that it is.
    pub fn activation(&self, alloc: Global, market: &Market) -> Result<Activation, AllocError>
        requires market { IsValid market.now }
        requires fits { FitsOrders market.now self.now }
        ensures { IfOk result (IsWritten market.now self.now) }
    {
        let mw = quantities(alloc, market.orders.as_slice(), &self.amounts)?;
        let flow = Vec::from_slice(alloc, &self.flows)?;
        Ok(Activation {
            mw: Items::of(mw),
            flow: Items::of(flow),
        })
    }

    /// The same with the activation.
    pub fn solved(self, alloc: Global, market: &Market) -> Result<Solved, AllocError>
        requires market { IsValid market.now }
        requires fits { FitsOrders market.now self }
        ensures activation { IfOk result (λ s. IsWritten market.now self s.activation) }
        ensures potentials { IfOk result (λ s. s.potentials ≡ self.potentials) }
        ensures welfare { IfOk result (λ s. s.welfare ≡ self.welfare) }
    {
        let mw = quantities(alloc, market.orders.as_slice(), &self.amounts)?;
        Ok(Solved {
            activation: Activation {
                mw: Items::of(mw),
                flow: Items::of(self.flows),
            },
            potentials: self.potentials,
            welfare: self.welfare,
        })
    }
}

/// The side of the cut where a stand-in has this amount: too much energy where it is taken away, too little where it is
/// given.
fn side_of(amount: i64) -> CutSide
    ensures out { amount <ℤ pos 0 → result ≡ CutSide.Out }
    ensures into { pos 0 ≤ℤ amount → result ≡ CutSide.In }
{
    if amount < 0 {
        CutSide::Out
    } else {
        CutSide::In
    }
}

/// What runs as an optimum, with what it is worth as its welfare, and with prices as potentials.
fn optimum_of(
    alloc: Global,
    amounts: Vec<i64>,
    flows: Vec<i64>,
    worth: i128,
    prices: &[i64],
) -> Result<Optimum, AllocError>
    requires { worth ≤ℤ pos (MOST_ORDERS * MOST_WORTH) }

    // What runs.
    ensures amounts { IfOk result (λ o. o.amounts ≡ amounts) }
    ensures flows { IfOk result (λ o. o.flows ≡ flows) }

    // The potentials, within the cap, and the welfare as it is stated.
    ensures potentials { IfOk result (λ o. o.potentials.cents ≡ map capped_cents prices.now) }
    ensures stated { IfOk result (λ o. pos o.welfare ≡ int_max (pos 0) worth) }
{
    let cents = cap_all(alloc, prices)?;
    Ok(Optimum {
        amounts,
        flows,
        potentials: Prices {
            cents: Items::of(cents),
        },
        welfare: stated(worth),
    })
}

/// The cut of the zones of the least prices, or of the greatest.
fn cut_from(alloc: Global, side: CutSide, prices: &[i64]) -> Result<Cut, AllocError>
    requires { length prices.now ≤ MOST_ZONES }
    ensures side { IfOk result (λ cut. cut.side ≡ side) }
    ensures rising { IfOk result (λ cut. IsRising 0 (length prices.now) cut.zones) }
    ensures inside { IfOk result (λ cut. (z : ℕ) → z < length prices.now → is_in cut.zones z ≡ is_inside side (int_at prices.now z)) }
{
    let zones = cut_zones(alloc, side, prices)?;
    Ok(Cut {
        side,
        zones: Items::of(zones),
    })
}

/// Reads the answer where no chain is left: where nothing stands in any more it is the optimum, and else a cut. `worth`
/// is what the amounts are worth together, in quarter-cents.
pub fn answer(
    alloc: Global,
    market: &Market,
    network: &Network,
    amounts: Vec<i64>,
    flows: Vec<i64>,
    worth: i128,
    prices: &[i64],
) -> Result<Optimum, SolveFault>
    // The network is the market's.
    requires market { IsValid market.now }
    requires network { IsNetwork network.now }
    requires same { IsNetworkOf market.now network.now }

    // What runs in it, where no chain is left, and what that is worth.
    requires runs { Runs network.now amounts.items flows.items }
    requires worth { worth ≡ sum_along slot_gain network.now.slots.now amounts.items }
    requires tight { AreTightPrices network.now amounts.items flows.items prices.now }
    requires long { length market.now.orders ≤ length amounts.items }

    // The answer, by whatever bounds the slots were made.
    ensures { (spans : Order → Span) (more : List Slot) → AreSlotsOf spans market.now more network.now.slots.now → IsFoundOptimum spans market.now result }
{
    // What runs is said by the network, whose amounts, flows and prices these are.
    let _network = network;
    match first_short(&amounts, market.orders.as_slice().len()) {
        None => Ok(optimum_of(alloc, amounts, flows, worth, prices)?),
        Some(short) => {
            let cut = cut_from(alloc, side_of(amounts[short]), prices)?;
            Err(SolveFault::Cut(cut))
        }
    }
}
