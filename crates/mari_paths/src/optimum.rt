//! The relaxed optimum of a prefix, or a cut, from an activation to start with.

ghost use Rattle.std.specs.Prelude.{◌≡◌, List, ◌≤◌, pos, length, take, IfOk, IfErr};
ghost use Rattle.std.specs.Int.{int_max};
ghost use Rattle.std.specs.List.{All, AllZip};
ghost use Rattle.mari_market.specs.declared.market.Order.{Order};
ghost use Rattle.mari_market.specs.Activation.{welfare_of};
ghost use Rattle.mari_market.specs.Bounds.{Span};
ghost use Rattle.mari_market.specs.Sums.{sum_along};
ghost use Rattle.mari_market.specs.Cut.{IsCut};
ghost use Rattle.mari_market.specs.Dual.{IsTight, dual_value_of};
ghost use Rattle.mari_market.specs.Market.{IsValid};
ghost use Rattle.mari_market.specs.Prefix.{word_of, bounds_at, IsFeasiblePrefix};
ghost use Rattle.mari_market.specs.Price.{ArePrices};
ghost use Rattle.mari_market.specs.Relaxation.{IsWithinBounds, IsRelaxedWelfare};
ghost use Rattle.mari_network.specs.declared.slots.Slot.{Slot};
ghost use Rattle.mari_network.specs.Fits.{IsNetworkSlot};
ghost use Rattle.mari_network.specs.Orders.{slots_of, CanPut, AreOrderSlots};
ghost use Rattle.mari_network.specs.Margins.{AreMargins};
ghost use Rattle.mari_network.specs.Network.{ArePlaces, IsNetwork, Runs};
ghost use Rattle.mari_network.specs.Slots.{slot_gain, IsRunning};
ghost use Rattle.mari_network.specs.Solving.{NoneWithin, OfCut, IsFoundOptimum, IsNetworkOf, AreSlotsOf};

use crate::run::run;
use crate::start::start_from;
use mari_market::{Activation, Market, Prefix};
use mari_network::{
    Margin, Network, Optimum, Places, Slot, SolveFault, Solved, answer, margins_on_ladders,
    network_of, order_slots, places_of, with_stand_ins, worth_of,
};
use std::alloc::Global;

/// The relaxed optimum of a market from what runs in a network of it, or a cut.
pub fn solve_network(
    alloc: Global,
    market: &Market,
    network: &Network,
    mut amounts: Vec<i64>,
    mut flows: Vec<i64>,
    mut worth: i128,
    on_ladders: Vec<Margin>,
) -> Result<Optimum, SolveFault>
    // The network is the market's.
    requires market { IsValid market.now }
    requires network { IsNetwork network.now }
    requires same { IsNetworkOf market.now network.now }

    // What runs in it and what it is worth, in quarter-cents, with the margins of its ladders.
    requires runs { Runs network.now amounts.items flows.items }
    requires worth { worth ≡ sum_along slot_gain network.now.slots.now amounts.items }
    requires margins { AreMargins network.now.slots.now amounts.items (length network.now.meeting.now) network.now.on_ladders on_ladders.items }
    requires long { length market.now.orders ≤ length amounts.items }

    // The answer, by whatever bounds the slots were made.
    ensures { (spans : Order → Span) (more : List Slot) → AreSlotsOf spans market.now more network.now.slots.now → IsFoundOptimum spans market.now result }
{
    let mut margins = with_stand_ins(alloc, network, &amounts, on_ladders)?;
    let prices = run(
        alloc,
        network,
        &mut amounts,
        &mut flows,
        &mut worth,
        &mut margins,
    )?;
    answer(alloc, market, network, amounts, flows, worth, &prices)
}

/// The relaxed optimum of a market whose orders may run within these slots, from amounts and flows that balance with
/// what stands in; or a cut.
fn solve_slots(
    alloc: Global,
    market: &Market,
    slots: &[Slot],
    places: &Places,
    amounts: Vec<i64>,
    flows: Vec<i64>,
) -> Result<Optimum, SolveFault>
    requires market { IsValid market.now }
    requires slots { All (IsNetworkSlot market.now.zones) slots.now }
    requires sides { AllZip (λ o s. CanPut o.side s.low × CanPut o.side s.high) market.now.orders (take (length market.now.orders) slots.now) }
    requires places { ArePlaces market.now.zones slots.now market.now.borders places.now }
    requires runs { IsRunning market.now.zones slots.now market.now.borders amounts.items flows.items }
    requires long { length market.now.orders ≤ length amounts.items }
    ensures { (spans : Order → Span) (more : List Slot) → AreSlotsOf spans market.now more slots.now → IsFoundOptimum spans market.now result }
{
    let network = network_of(market, slots, places);
    let worth = worth_of(network.slots, &amounts);
    let margins = margins_on_ladders(alloc, &network, &amounts)?;
    solve_network(alloc, market, &network, amounts, flows, worth, margins)
}

/// The relaxed optimum of a market whose orders may run within these slots, from an activation to start with; or a
/// cut. The slots are real ones: those that stand in aren't among them.
fn solve_reals(
    alloc: Global,
    market: &Market,
    reals: Vec<Slot>,
    start: Option<&Activation>,
) -> Result<Optimum, SolveFault>
    requires market { IsValid market.now }
    requires reals { AreOrderSlots market.now.zones market.now.orders reals.items }
    ensures { (spans : Order → Span) → reals.items ≡ slots_of spans market.now.orders → IsFoundOptimum spans market.now result }
{
    let orders = market.orders.as_slice().len();
    let places = places_of(alloc, market, &reals, orders)?;
    let begun = start_from(alloc, market, reals, &places, start)?;
    let slots = begun.slots;
    solve_slots(alloc, market, &slots, &places, begun.amounts, begun.flows)
}

/// The relaxed optimum of a prefix from an activation to start with, as the network has it.
pub fn optimum_from(
    alloc: Global,
    market: &Market,
    prefix: &Prefix,
    start: Option<&Activation>,
) -> Result<Optimum, SolveFault>
    // What the caller knows of the market and the prefix; of the start nothing.
    requires market { IsValid market.now }
    requires prefix { IsFeasiblePrefix market.now prefix.now }

    // The optimum, or a cut, and that there is no optimum then.
    ensures found { IsFoundOptimum (bounds_at market.now prefix.now) market.now result }
    ensures empty { IfErr result (λ fault. OfCut fault (λ _. NoneWithin (bounds_at market.now prefix.now) market.now)) }
{
    let reals = order_slots(alloc, market, prefix)?;
    solve_reals(alloc, market, reals, start)
}

/// The relaxed optimum of a prefix, from an activation to start with: for every start, an activation within the
/// prefix's bounds, where orders of undecided gates may run anything up to their greatest, of the greatest welfare,
/// with potentials of which it is the dual value; or a cut, where no activation lies within the bounds.
///
/// The start's quantities and flows are moved within the bounds and limits, to the nearest there; no clause says that
/// it is the nearest. In place of a start of other lengths, or none, the orders run what they would at one price for
/// the whole market, as far as a zone's borders can carry what that leaves over or lacks, and zones with too much give
/// their neighbours what these are short of. What is still too much or too little in a zone is taken away or given at a
/// price that no order reaches, and energy is then moved from cheaper to dearer orders along borders with room until no
/// zone's prices contradict each other. From a start near the optimum few moves are needed, and time is that of a few
/// passes over the orders.
pub fn solve_from(
    alloc: Global,
    market: &Market,
    prefix: &Prefix,
    start: Option<&Activation>,
) -> Result<Solved, SolveFault>
    // What the caller knows of the market and the prefix; of the start nothing.
    requires market { IsValid market.now }
    requires prefix { IsFeasiblePrefix market.now prefix.now }

    // The optimum, and that it is one.
    ensures within { IfOk result (λ s. IsWithinBounds (bounds_at market.now prefix.now) market.now s.activation) }
    ensures relaxed { IfOk result (λ s. IsRelaxedWelfare market.now (word_of prefix.now) (welfare_of market.now s.activation)) }

    // The potentials that show it, and its welfare as it is stated.
    ensures dual { IfOk result (λ s. dual_value_of (bounds_at market.now prefix.now) market.now s.potentials.cents ≡ welfare_of market.now s.activation) }
    ensures tight { IfOk result (λ s. IsTight (bounds_at market.now prefix.now) market.now s.activation s.potentials.cents) }
    ensures potentials { IfOk result (λ s. ArePrices market.now s.potentials.cents) }
    ensures stated { IfOk result (λ s. pos s.welfare ≡ int_max (pos 0) (welfare_of market.now s.activation)) }

    // The cut, and that there is no optimum then.
    ensures cut { IfErr result (λ fault. OfCut fault (IsCut (bounds_at market.now prefix.now) market.now)) }
    ensures empty { IfErr result (λ fault. OfCut fault (λ _. NoneWithin (bounds_at market.now prefix.now) market.now)) }
{
    let optimum = optimum_from(alloc, market, prefix, start)?;
    Ok(optimum.solved(alloc, market)?)
}
