//! The plain orders of a market, by the ladders of both sides.

ghost use Rattle.std.specs.Prelude.{◌≡◌, pos, ◌*◌, ◌≤ℤ◌, neg_ℤ, length, IfOk};
ghost use Rattle.std.specs.List.{All, filter};
ghost use Rattle.mari_market.specs.Dual.{best_order};
ghost use Rattle.mari_market.specs.Market.{IsValid};
ghost use Rattle.mari_market.specs.Price.{IsCapped};
ghost use Rattle.mari_market.specs.Sums.{int_sum};
ghost use Rattle.mari_proofs.specs.NetInjections.{put_of};
ghost use Rattle.mari_reach.specs.declared.states.State.{State as StateRecord};
ghost use Rattle.mari_reach.specs.Tables.{is_plain, span_in, AreLaddersOf, IsZoneSet};
ghost use Rattle.mari_reach.specs.Values.{HasLevels};

use crate::ladders::Ladder;
use crate::levels::Levels;
use crate::states::State;
use crate::zones::ZoneSet;
use mari_market::{CutSide, MOST_ORDERS, MOST_WORTH, Market, Side};
use mari_units::{Cents, MOST_MW, MOST_ZONES, Memory};
use std::alloc::Global;

/// The ladders of a market's plain orders.
#[derive(Drop)]
pub(crate) struct Ladders {
    /// Of those that give energy.
    injecting: Ladder,
    /// Of those that take it.
    withdrawing: Ladder,
}

impl Ladders {
    /// The ladders of a market.
    pub(crate) fn of(alloc: Global, market: &Market) -> Result<Ladders, Memory>
        requires { IsValid market.now }
        ensures { IfOk result (AreLaddersOf market.now) }
    {
        let injecting = Ladder::of(alloc, market, Side::Inject)?;
        let withdrawing = Ladder::of(alloc, market, Side::Withdraw)?;
        Ok(Ladders {
            injecting,
            withdrawing,
        })
    }

    /// The most that plain orders gain.
    pub(crate) fn gain(&self, market: &Market, levels: &Levels, potentials: &[Cents]) -> i64
        requires market { IsValid market.now }
        requires ladders { AreLaddersOf market.now self.now }
        requires one_each { length potentials.now ≡ market.now.zones }
        requires potentials { All IsCapped potentials.now }
        ensures value { (r : StateRecord) → HasLevels r potentials.now levels.now
            → result ≡ int_sum (best_order (span_in r) potentials.now) (filter is_plain market.now.orders) }
        ensures low { neg_ℤ (pos (4 * (MOST_WORTH * MOST_ORDERS) * MOST_ZONES)) ≤ℤ result }
        ensures high { result ≤ℤ pos (4 * (MOST_WORTH * MOST_ORDERS) * MOST_ZONES) }
    {
        self.injecting.gain(Side::Inject, levels, potentials)
            + self.withdrawing.gain(Side::Withdraw, levels, potentials)
    }

    /// What a cut of zones counts of plain orders.
    pub(crate) fn put(&self, market: &Market, state: &State, cut: CutSide, set: &ZoneSet) -> i64
        requires market { IsValid market.now }
        requires ladders { AreLaddersOf market.now self.now }
        requires set { IsZoneSet set.now }
        ensures value { result ≡ int_sum (put_of cut (span_in state.now) set.now.zones.now) (filter is_plain market.now.orders) }
        ensures low { neg_ℤ (pos (MOST_MW * MOST_ORDERS * MOST_ZONES)) ≤ℤ result }
        ensures high { result ≤ℤ pos (MOST_MW * MOST_ORDERS * MOST_ZONES) }
    {
        self.injecting.put(cut, Side::Inject, &state.prices, set)
            - self
                .withdrawing
                .put(cut, Side::Withdraw, &state.prices, set)
    }
}
