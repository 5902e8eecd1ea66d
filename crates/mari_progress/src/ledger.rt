//! The ledger of a run.

ghost use Rattle.std.specs.Prelude.{◌≡◌, IfOk, IfSome, option_map};
ghost use Rattle.mari_market.specs.Optimal.{IsConsistent, IsFeasible};
ghost use Rattle.mari_market.specs.Price.{ArePrices};
ghost use Rattle.mari_remain.specs.Accepted.{IsAccepted};
ghost use Rattle.mari_settle.specs.Ledger.{operator_lines, provider_amounts, rents_of, scheduled_or};
ghost use Rattle.mari_progress.specs.Runs.{IsBalancedLedger, IsMarketOf};

use mari_market::{Activation, Prices};
use mari_remain::{Books, RunMarket};
use mari_settle::{Ledger, settle_run};
use mari_units::Memory;
use std::alloc::Global;

/// The ledger of a run's activation at these prices. A direct run's bids are paid with regard to the scheduled prices
/// of its quarter, where there are any.
pub fn ledger_of(
    alloc: Global,
    books: &Books,
    made: &RunMarket,
    prices: &Prices,
    activation: &Activation,
    also: Option<&Prices>,
) -> Result<Ledger, Memory>
    // The run's market, as the folder's books give it.
    requires accepted { IsAccepted books.now }
    requires made { IsMarketOf books.now made.now }

    // What runs in it, and at which prices.
    requires feasible { IsFeasible made.now.market activation.now }
    requires consistent { IsConsistent made.now.market activation.now prices.now.cents }
    requires also { IfSome also (λ scheduled. ArePrices made.now.market scheduled.now.cents) }

    // Exactly the run's operators' lines, providers' amounts and rents.
    ensures operators { IfOk result (λ ledger. ledger.operators ≡ operator_lines books.now.zones made.now.market activation.now prices.now.cents) }
    ensures providers { IfOk result (λ ledger. ledger.providers ≡ provider_amounts books.now.bids made.now.bids activation.now prices.now.cents
        (scheduled_or prices.now.cents (option_map (λ scheduled. scheduled.now.cents) also.entry))) }
    ensures rents { IfOk result (λ ledger. ledger.rents ≡ rents_of made.now.market activation.now prices.now.cents) }

    // So a day's ledgers can be added up, and what some operators pay, the others get.
    ensures balanced { IfOk result IsBalancedLedger }
{
    let mut ledger = Ledger::start(alloc, &books.zones, &books.borders, &books.bids)?;
    settle_run(
        &books.zones,
        &books.bids,
        &made.market,
        made.bids.as_slice(),
        prices,
        activation,
        &mut ledger,
        also,
    );
    Ok(ledger)
}
