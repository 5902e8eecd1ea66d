//! The relaxed optimum of a prefix, or a cut, by improving cycles alone.

ghost use Rattle.std.specs.Prelude.{◌≡◌, pos, IfOk, IfErr};
ghost use Rattle.std.specs.Int.{int_max};
ghost use Rattle.mari_market.specs.declared.market.Order.{Order};
ghost use Rattle.mari_market.specs.Activation.{welfare_of};
ghost use Rattle.mari_market.specs.Bounds.{Span};
ghost use Rattle.mari_market.specs.Cut.{IsCut};
ghost use Rattle.mari_market.specs.Dual.{IsTight, dual_value_of};
ghost use Rattle.mari_market.specs.Market.{IsValid};
ghost use Rattle.mari_market.specs.Prefix.{word_of, bounds_at, IsFeasiblePrefix};
ghost use Rattle.mari_market.specs.Price.{ArePrices};
ghost use Rattle.mari_market.specs.Relaxation.{IsWithinBounds, IsRelaxedWelfare};
ghost use Rattle.mari_network.specs.Orders.{slots_of, AreOrderSlots};
ghost use Rattle.mari_network.specs.Solving.{NoneWithin, OfCut, IsFoundOptimum};

use crate::run::run;
use crate::start::{first_amounts, with_stand_ins};
use mari_market::{Market, Prefix};
use mari_network::{
    Optimum, Slot, SolveFault, Solved, answer, network_of, order_slots, places_of, worth_of,
};
use std::alloc::Global;

/// The relaxed optimum of a market whose orders may run within these slots, or a cut.
fn solve_slots(alloc: Global, market: &Market, reals: &[Slot]) -> Result<Optimum, SolveFault>
    requires market { IsValid market.now }
    requires reals { AreOrderSlots market.now.zones market.now.orders reals.now }
    ensures { (spans : Order → Span) → reals.now ≡ slots_of spans market.now.orders → IsFoundOptimum spans market.now result }
{
    let all = with_stand_ins(alloc, reals)?;
    let slots = all.as_slice();
    let places = places_of(alloc, market, slots, slots.len())?;
    let network = network_of(market, slots, &places);
    let mut amounts = first_amounts(alloc, reals)?;
    let mut flows = vec![in alloc; 0i64; network.borders.len()]?;
    let prices = run(alloc, &network, &mut amounts, &mut flows)?;
    let worth = worth_of(network.slots, &amounts);
    answer(alloc, market, &network, amounts, flows, worth, &prices)
}

/// The relaxed optimum of a prefix as the network has it, or a cut.
fn optimum_at(alloc: Global, market: &Market, prefix: &Prefix) -> Result<Optimum, SolveFault>
    requires market { IsValid market.now }
    requires prefix { IsFeasiblePrefix market.now prefix.now }
    ensures found { IsFoundOptimum (bounds_at market.now prefix.now) market.now result }
    ensures empty { IfErr result (λ fault. OfCut fault (λ _. NoneWithin (bounds_at market.now prefix.now) market.now)) }
{
    let reals = order_slots(alloc, market, prefix)?;
    solve_slots(alloc, market, &reals)
}

/// The relaxed optimum of a prefix: an activation within its bounds, where orders of undecided gates may run anything
/// up to their greatest, of the greatest welfare, with potentials of which it is the dual value; or a cut, where no
/// activation lies within the bounds.
///
/// It cancels improving cycles: every order starts at its least, what that leaves too much or too little in a zone is
/// taken away or given at a price that no order reaches, and energy is then moved from cheaper to dearer orders along
/// borders with room until no zone's prices contradict each other.
pub fn solve(alloc: Global, market: &Market, prefix: &Prefix) -> Result<Solved, SolveFault>
    // What the caller knows of the market and the prefix.
    requires market { IsValid market.now }
    requires prefix { IsFeasiblePrefix market.now prefix.now }

    // The optimum, and that it is one.
    ensures within { IfOk result (λ s. IsWithinBounds (bounds_at market.now prefix.now) market.now s.activation) }
    ensures relaxed { IfOk result (λ s. IsRelaxedWelfare market.now (word_of prefix.now) (welfare_of market.now s.activation)) }

    // The potentials that show it, and its welfare as it is stated.
    ensures dual { IfOk result (λ s. dual_value_of (bounds_at market.now prefix.now) market.now s.potentials.cents ≡ welfare_of market.now s.activation) }
    ensures tight { IfOk result (λ s. IsTight (bounds_at market.now prefix.now) market.now s.activation s.potentials.cents) }
    ensures potentials { IfOk result (λ s. ArePrices market.now s.potentials.cents) }
    ensures stated { IfOk result (λ s. pos s.welfare ≡ int_max (pos 0) (welfare_of market.now s.activation)) }

    // The cut, and that there is no optimum then.
    ensures cut { IfErr result (λ fault. OfCut fault (IsCut (bounds_at market.now prefix.now) market.now)) }
    ensures empty { IfErr result (λ fault. OfCut fault (λ _. NoneWithin (bounds_at market.now prefix.now) market.now)) }
{
    let optimum = optimum_at(alloc, market, prefix)?;
    Ok(optimum.solved(alloc, market)?)
}
