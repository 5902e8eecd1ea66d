//! The intervals of consistent prices.

ghost use Rattle.std.specs.Prelude.{◌≡◌, ◌≤◌, ◌<◌, List, length, IfOk, OnOk, IfErr};
ghost use Rattle.std.specs.List.{All};
ghost use Rattle.mari_market.specs.Conflict.{IsContradiction};
ghost use Rattle.mari_market.specs.Interval.{AreGreatestPrices, AreLeastPrices};
ghost use Rattle.mari_market.specs.Market.{IsValid};
ghost use Rattle.mari_market.specs.Optimal.{IsConsistent, IsFeasible};
ghost use Rattle.mari_prices.specs.Answers.{OnConflict};
ghost use Rattle.mari_units.specs.declared.Cents.{Cents};

use crate::bounds::End;
use crate::conflicts::chain_by;
use crate::ends::{bounds_of, prices_of_settled, spread_of};
use mari_market::{Activation, Market, Prices};
use mari_units::Items;
use std::alloc::{AllocError, Global};

/// The intervals of all zones.
#[derive(Drop)]
pub struct Intervals {
    /// The least consistent price of each zone.
    pub least: Prices,
    /// The greatest consistent price of each zone.
    pub greatest: Prices,
}

/// Why there are no intervals.
#[derive(Drop)]
pub enum PriceFault {
    /// No prices are consistent, as this chain of zones shows.
    Conflict(Items<u32>),
    /// Out of memory.
    Memory,
}

impl From<AllocError> for PriceFault {
    ghost use Rattle.std.specs.Prelude.{◌≡◌};
    ghost use Rattle.mari_prices.specs.declared.intervals.PriceFault.TheVariants.{Memory};

    ghost from_gives = { λ _ fault. fault ≡ Memory };

    fn from(_: AllocError) -> Self {
        PriceFault::Memory
    }
}

/// The intervals of the prices that are consistent with an activation, by the marginal pricing of Article 30 of
/// Regulation (EU) 2017/2195 in whole MW and whole cents per MWh.
///
/// A conflict comes exactly where no prices are consistent. From each zone of its chain to the next, some border makes
/// the next price at least the former, but the first zone has a lower bound above an upper bound of the last. Time is
/// that of the orders, and of zones times borders.
pub fn price_test(
    alloc: Global,
    market: &Market,
    activation: &Activation,
) -> Result<Intervals, PriceFault>
    // A market, and an activation that is feasible in it.
    requires valid { IsValid market.now }
    requires feasible { IsFeasible market.now activation.now }

    // Where some prices are consistent: the least of each zone, and the greatest.
    ensures some { OnOk result ((ps : List Cents) × IsConsistent market.now activation.now ps) }
    ensures least { IfOk result (λ i. AreLeastPrices market.now activation.now i.least.cents) }
    ensures greatest { IfOk result (λ i. AreGreatestPrices market.now activation.now i.greatest.cents) }

    // Where none are: a chain of at most all zones that shows it.
    ensures none { IfErr result (λ e. OnConflict e (λ _. (ps : List Cents) → IsConsistent market.now activation.now ps → ⊥)) }
    ensures chain { IfErr result (λ e. OnConflict e (IsContradiction market.now activation.now)) }
    ensures short { IfErr result (λ e. OnConflict e (λ chain. length chain ≤ market.now.zones)) }
    ensures zones { IfErr result (λ e. OnConflict e (All (λ z. z < market.now.zones))) }
{
    let bounds = bounds_of(alloc, market, activation)?;
    let flow = activation.flow.as_slice();
    let least = spread_of(alloc, market, flow, &bounds.least, End::Least)?;
    if let Some(chain) = chain_by(alloc, market, &bounds, &least)? {
        return Err(PriceFault::Conflict(chain));
    }
    let greatest = spread_of(alloc, market, flow, &bounds.greatest, End::Greatest)?;
    Ok(Intervals {
        least: prices_of_settled(alloc, &least, End::Least)?,
        greatest: prices_of_settled(alloc, &greatest, End::Greatest)?,
    })
}
