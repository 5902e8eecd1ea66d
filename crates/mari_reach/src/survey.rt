//! What all states of a market have in common.

ghost use Rattle.std.specs.Prelude.{IfOk, IfSome};
ghost use Rattle.mari_market.specs.Market.{IsValid};
ghost use Rattle.mari_reach.specs.State.{AreDecisions};
ghost use Rattle.mari_reach.specs.Tables.{AreLaddersOf, IsStateOf, IsSurveyOf};

use crate::decisions::Decision;
use crate::gated::gated_orders;
use crate::ranks::Twins;
use crate::sides::Ladders;
use crate::states::State;
use mari_market::{Market, Order};
use mari_proofs::FEW_ITEMS;
use mari_units::Memory;
use std::alloc::Global;

/// The orders of a market's gates, the others by ladders, and which gates are twins.
#[derive(Drop)]
pub(crate) struct Survey {
    /// The orders of gates.
    pub(crate) gated: Vec<Order>,
    /// The ladders of the other orders, if so many items are tested that they save more than they cost.
    pub(crate) ladders: Option<Ladders>,
    /// Which gates are twins.
    pub(crate) twins: Twins,
}

/// The ladders of a market, unless so few items are tested that they cost more than they save.
fn ladders_for(alloc: Global, market: &Market, items: usize) -> Result<Option<Ladders>, Memory>
    requires { IsValid market.now }
    ensures { IfOk result (λ l. IfSome l (AreLaddersOf market.now)) }
{
    if items <= FEW_ITEMS {
        return Ok(None);
    }
    Ok(Some(Ladders::of(alloc, market)?))
}

impl Survey {
    /// The survey of a market, for a tree of so many items.
    pub(crate) fn of(alloc: Global, market: &Market, items: usize) -> Result<Survey, Memory>
        requires { IsValid market.now }
        ensures { IfOk result (IsSurveyOf market.now) }
    {
        let gated = gated_orders(alloc, market)?;
        let ladders = ladders_for(alloc, market, items)?;
        let twins = Twins::of(market);
        Ok(Survey {
            gated,
            ladders,
            twins,
        })
    }

    /// Makes a state what decisions leave.
    pub(crate) fn set(&self, state: &mut State, market: &Market, decisions: &[Decision])
        requires market { IsValid market.now }
        requires survey { IsSurveyOf market.now self.now }
        requires decisions { AreDecisions market.now decisions.now }
        ensures { IsStateOf market.now decisions.now state.new }
    {
        state.set(market, self.gated.as_slice(), &self.twins, decisions);
    }
}
