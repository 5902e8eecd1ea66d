//! Whether some prices are consistent with an activation, and the chain of zones that shows where none are.

ghost use Rattle.std.specs.Prelude.{IfOk, MatchOption, length};
ghost use Rattle.std.specs.Option.{IfNone};
ghost use Rattle.mari_market.specs.declared.activation.Activation.{Activation as TheActivation};
ghost use Rattle.mari_market.specs.Conflict.{IsContradictoryChain};
ghost use Rattle.mari_market.specs.Market.{IsValid};
ghost use Rattle.mari_market.specs.Optimal.{IsAdmissible, IsFeasible};
ghost use Rattle.mari_prices.specs.Ends.{AreEnds, AreUncontradicted, IsBoundedBy};

use crate::bounds::{End, PriceBounds};
use crate::ends::{bounds_of, chain_to, contradicted, spread_of};
use crate::spread::SettledZone;
use mari_market::{Activation, Market};
use mari_units::Items;
use std::alloc::{AllocError, Global};

/// The chain to a zone whose least price is above its own upper bound, where there is one.
pub(crate) fn chain_by(
    alloc: Global,
    market: &Market,
    bounds: &PriceBounds,
    least: &[Option<SettledZone>],
) -> Result<Option<Items<u32>>, AllocError>
    // Bounds at both ends, and what those at the least end become.
    requires valid { IsValid market.now }
    requires ends { (a : TheActivation) × AreEnds market.now a bounds.now least.now }

    // A chain that shows that no prices are consistent; or some are, and no least price is above the upper bound.
    ensures chain { (a : TheActivation) → AreEnds market.now a bounds.now least.now
        → IfOk result (λ chain. MatchOption chain (IsAdmissible market.now a) (IsContradictoryChain market.now a)) }
    ensures none { IfOk result (λ chain. IfNone chain (AreUncontradicted (length least.now) least.now bounds.now.greatest.items)) }
{
    // Whose bounds these are, only clauses say.
    let _market = market;
    match contradicted(least, &bounds.greatest) {
        Some(zone) => Ok(Some(Items::of(chain_to(alloc, least, zone)?))),
        None => Ok(None),
    }
}

/// The chain of zones that shows that no prices are consistent with a feasible activation of these flows, where none
/// are, from each zone's tightest bounds.
///
/// It is what `contradiction` finds, where the caller has the bounds. Time is that of zones times borders.
pub fn contradiction_between(
    alloc: Global,
    market: &Market,
    flow: &[i64],
    bounds: &PriceBounds,
) -> Result<Option<Items<u32>>, AllocError>
    requires valid { IsValid market.now }
    requires bounded { (a : TheActivation) × IsBoundedBy market.now flow.now bounds.now a }
    ensures { (a : TheActivation) → IsBoundedBy market.now flow.now bounds.now a
        → IfOk result (λ chain. MatchOption chain (IsAdmissible market.now a) (IsContradictoryChain market.now a)) }
{
    let least = spread_of(alloc, market, flow, &bounds.least, End::Least)?;
    chain_by(alloc, market, bounds, &least)
}

/// The chain of zones that shows that no prices are consistent with a feasible activation, where none are.
///
/// It is the conflict of `price_test`, without the intervals: only the bounds at the least end spread. Time is that of
/// the orders, and of zones times borders.
pub fn contradiction(
    alloc: Global,
    market: &Market,
    activation: &Activation,
) -> Result<Option<Items<u32>>, AllocError>
    requires valid { IsValid market.now }
    requires feasible { IsFeasible market.now activation.now }
    ensures { IfOk result (λ chain. MatchOption chain (IsAdmissible market.now activation.now) (IsContradictoryChain market.now activation.now)) }
{
    let bounds = bounds_of(alloc, market, activation)?;
    contradiction_between(alloc, market, activation.flow.as_slice(), &bounds)
}
