//! What the nodes of one search start from.

ghost use Rattle.std.specs.Prelude.{◌≡◌, pos, length, IfOk, IfErr};
ghost use Rattle.std.specs.Int.{int_max};
ghost use Rattle.mari_market.specs.declared.market.Market.{Market};
ghost use Rattle.mari_market.specs.Activation.{welfare_of};
ghost use Rattle.mari_market.specs.Cut.{IsCut};
ghost use Rattle.mari_market.specs.Dual.{IsTight, dual_value_of};
ghost use Rattle.mari_market.specs.Market.{IsValid};
ghost use Rattle.mari_market.specs.Prefix.{word_of, bounds_at, IsFeasiblePrefix};
ghost use Rattle.mari_market.specs.Price.{ArePrices};
ghost use Rattle.mari_market.specs.Relaxation.{IsWithinBounds, IsRelaxedWelfare};
ghost use Rattle.mari_network.specs.Solving.{IsFoundOptimum, NoneWithin, OfCut};
ghost use Rattle.mari_paths.specs.Warm.{AreGated, AreOrderLadders, IsWarmStart, IsWorkspaceOf};

use crate::changes::{put_back, set_bounds};
use crate::margins::plain_margins;
use crate::optimum::solve_network;
use crate::start::start_from;
use mari_gates::empty_prefix;
use mari_market::{Activation, Market, Prefix};
use mari_network::{
    Margin, Optimum, Places, Slot, SolveFault, Solved, network_of, order_slots, places_of, worth_of,
};
use std::alloc::{AllocError, Global};

/// A market's network with what an activation runs in it, made once for all prefixes of a search.
///
/// Only orders of gates have bounds that depend on the prefix. So a prefix is solved in a workspace, which has the
/// slots of this, with just those orders given their bounds, in place of a network made anew from all orders: it costs
/// a copy of what runs, and a step for each of those orders and for each zone. What is found is what `solve_from` finds
/// from that activation, if it is a relaxed optimum of the prefix that decides no gate; no clause says so, but a test
/// compares them.
#[derive(Drop)]
pub struct WarmStart {
    slots: Vec<Slot>,
    amounts: Vec<i64>,
    flows: Vec<i64>,
    /// What the amounts are worth together, in quarter-cents.
    worth: i128,
    places: Places,
    /// The margin of each zone among the orders without a gate.
    plain: Vec<Margin>,
    gated: Vec<usize>,
}

/// Slots in which one prefix after the other is solved. Between two of them they are the slots of a warm start.
#[derive(Drop)]
pub struct Workspace {
    slots: Vec<Slot>,
}

impl Workspace {
    /// One without slots.
    pub fn empty(alloc: Global) -> Workspace {
        Workspace {
            slots: Vec::new(alloc),
        }
    }
}

/// The places of the orders that have a gate.
pub fn gated_places(alloc: Global, market: &Market) -> Result<Vec<usize>, AllocError>
    ensures { IfOk result (λ v. AreGated market.now v.items) }
{
    let orders = market.orders.as_slice();
    let mut places = Vec::new(alloc);
    for (i, order) in orders.iter().enumerate() {
        if order.gate.is_some() {
            places.push(i)?;
        }
    }
    Ok(places)
}

impl WarmStart {
    /// What runs in the market's network, in balance with what stands in. It is near to an activation, if one is given
    /// that fits the market, and else to what runs at one price for the whole market as far as borders let it; no clause
    /// says so.
    pub fn of(
        alloc: Global,
        market: &Market,
        start: Option<&Activation>,
    ) -> Result<WarmStart, AllocError>
        requires { IsValid market.now }
        ensures { IfOk result (IsWarmStart market.now) }
    {
        let reals = order_slots(alloc, market, &empty_prefix())?;
        let orders = market.orders.as_slice().len();
        let places = places_of(alloc, market, &reals, orders)?;
        let begun = start_from(alloc, market, reals, &places, start)?;
        let slots = begun.slots.as_slice();
        let amounts = begun.amounts.as_slice();
        let worth = worth_of(slots, amounts);
        let plain = plain_margins(alloc, market, slots, amounts)?;
        let gated = gated_places(alloc, market)?;
        Ok(WarmStart {
            slots: begun.slots,
            amounts: begun.amounts,
            flows: begun.flows,
            worth,
            places,
            plain,
            gated,
        })
    }

    /// A workspace for this.
    pub fn workspace(&self, alloc: Global) -> Result<Workspace, AllocError>
        ensures { IfOk result (IsWorkspaceOf self.now) }
    {
        Ok(Workspace {
            slots: Vec::from_slice(alloc, self.slots.as_slice())?,
        })
    }

    /// The relaxed optimum of a prefix, or a cut, solved in these slots. They are as they were after it.
    fn answer_in(
        &self,
        alloc: Global,
        market: &Market,
        prefix: &Prefix,
        slots: &mut [Slot],
    ) -> Result<Optimum, SolveFault>
        requires market { IsValid market.now }
        requires prefix { IsFeasiblePrefix market.now prefix.now }
        requires warm { IsWarmStart market.now self.now }
        requires slots { slots.old ≡ self.now.slots.items }
        ensures found { IsFoundOptimum (bounds_at market.now prefix.now) market.now result }
        ensures slots { slots.new ≡ slots.old }
    {
        let mut amounts = Vec::from_slice(alloc, self.amounts.as_slice())?;
        let flows = Vec::from_slice(alloc, self.flows.as_slice())?;
        let mut worth = self.worth;
        let mut margins = Vec::from_slice(alloc, self.plain.as_slice())?;
        let gated = self.gated.as_slice();
        set_bounds(
            market,
            prefix,
            gated,
            slots,
            &mut amounts,
            &mut worth,
            &mut margins,
        );
        let network = network_of(market, slots, &self.places);
        let found = solve_network(alloc, market, &network, amounts, flows, worth, margins);
        put_back(slots, self.slots.as_slice(), gated, self.places.on_ladders);
        found
    }

    /// The relaxed optimum of a prefix from what runs in this, as the network has it, solved in a workspace of this. It
    /// costs no copy of the slots, but a step for each order with a gate and for each zone.
    pub fn optimum_in(
        &self,
        alloc: Global,
        market: &Market,
        prefix: &Prefix,
        workspace: &mut Workspace,
    ) -> Result<Optimum, SolveFault>
        // What the caller knows of the market, the prefix, what this was made of, and the workspace.
        requires market { IsValid market.now }
        requires prefix { IsFeasiblePrefix market.now prefix.now }
        requires warm { IsWarmStart market.now self.now }
        requires workspace { IsWorkspaceOf self.now workspace.old }

        // The optimum, or a cut, and that there is no optimum then.
        ensures found { IsFoundOptimum (bounds_at market.now prefix.now) market.now result }
        ensures empty { IfErr result (λ fault. OfCut fault (λ _. NoneWithin (bounds_at market.now prefix.now) market.now)) }

        // The workspace is this one's still, whatever was found.
        ensures workspace { IsWorkspaceOf self.now workspace.new }
    {
        self.answer_in(alloc, market, prefix, &mut workspace.slots)
    }

    /// The relaxed optimum of a prefix from what runs in this, as the network has it.
    pub fn optimum(
        &self,
        alloc: Global,
        market: &Market,
        prefix: &Prefix,
    ) -> Result<Optimum, SolveFault>
        // What the caller knows of the market, the prefix and what this was made of.
        requires market { IsValid market.now }
        requires prefix { IsFeasiblePrefix market.now prefix.now }
        requires warm { IsWarmStart market.now self.now }

        // The optimum, or a cut, and that there is no optimum then.
        ensures found { IsFoundOptimum (bounds_at market.now prefix.now) market.now result }
        ensures empty { IfErr result (λ fault. OfCut fault (λ _. NoneWithin (bounds_at market.now prefix.now) market.now)) }
    {
        let mut workspace = self.workspace(alloc)?;
        self.optimum_in(alloc, market, prefix, &mut workspace)
    }

    /// The places of the orders that have a gate.
    pub fn gated(&self) -> &[usize]
        ensures { (m : Market) → IsWarmStart m self.now → AreGated m result.now }
    {
        self.gated.as_slice()
    }

    /// The relaxed optimum of a prefix: an activation within the prefix's bounds, where orders of undecided gates may
    /// run anything up to their greatest, of the greatest welfare, with potentials of which it is the dual value; or a
    /// cut, where no activation lies within the bounds.
    pub fn solve(
        &self,
        alloc: Global,
        market: &Market,
        prefix: &Prefix,
    ) -> Result<Solved, SolveFault>
        // What the caller knows of the market, the prefix and what this was made of.
        requires market { IsValid market.now }
        requires prefix { IsFeasiblePrefix market.now prefix.now }
        requires warm { IsWarmStart market.now self.now }

        // The optimum, and that it is one.
        ensures within { IfOk result (λ s. IsWithinBounds (bounds_at market.now prefix.now) market.now s.activation) }
        ensures relaxed { IfOk result (λ s. IsRelaxedWelfare market.now (word_of prefix.now) (welfare_of market.now s.activation)) }

        // The potentials that show it, and its welfare as it is stated.
        ensures dual { IfOk result (λ s. dual_value_of (bounds_at market.now prefix.now) market.now s.potentials.cents ≡ welfare_of market.now s.activation) }
        ensures tight { IfOk result (λ s. IsTight (bounds_at market.now prefix.now) market.now s.activation s.potentials.cents) }
        ensures potentials { IfOk result (λ s. ArePrices market.now s.potentials.cents) }
        ensures stated { IfOk result (λ s. pos s.welfare ≡ int_max (pos 0) (welfare_of market.now s.activation)) }

        // The cut, and that there is no optimum then.
        ensures cut { IfErr result (λ fault. OfCut fault (IsCut (bounds_at market.now prefix.now) market.now)) }
        ensures empty { IfErr result (λ fault. OfCut fault (λ _. NoneWithin (bounds_at market.now prefix.now) market.now)) }
    {
        let optimum = self.optimum(alloc, market, prefix)?;
        Ok(optimum.solved(alloc, market)?)
    }
}

impl WarmStart {
    /// The places of the market's orders and borders by zone. The clause speaks of the orders; none of the borders.
    pub fn places(&self) -> &Places
        ensures { (m : Market) → IsWarmStart m self.now → AreOrderLadders m result.now }
    {
        &self.places
    }
}
