//! The ledger of one run.

ghost use Rattle.std.specs.Prelude.{◌≡◌, ◌≤◌, take, IfSome, length, option_map, pos, ◌≤ℤ◌};
ghost use Rattle.std.specs.List.{All};
ghost use Rattle.mari_market.specs.Market.{IsValid};
ghost use Rattle.mari_market.specs.Optimal.{IsConsistent, IsFeasible};
ghost use Rattle.mari_market.specs.Sums.{int_sum};
ghost use Rattle.mari_zones.specs.Zones.{HasOperators};
ghost use Rattle.mari_settle.specs.Conditions.{FitsRun, HasProviders, HasSmallNumbers, MoneyIsWithin, LineIsWithin, NameOrders, most_of_operator, most_of_provider};
ghost use Rattle.mari_settle.specs.Ledger.{net_of, operator_lines, provider_amounts, rents_of, scheduled_or as scheduled_or_in};
ghost use Rattle.mari_market.specs.Price.{IsCapped, ArePrices};

use crate::ledger::Ledger;
use crate::operators::write_lines;
use crate::providers::write_amounts;
use crate::rents::write_rents;
use mari_bids::BidBook;
use mari_market::{Activation, Market, Prices};
use mari_units::{Cents, MOST_BID_MW};
use mari_zones::ZoneBook;

/// The scheduled prices, or where there are none these.
fn scheduled_or<'a>(prices: &'a [Cents], also: Option<&'a Prices>) -> &'a [Cents]
    ensures prices { result.now ≡ scheduled_or_in prices.now (option_map (λ scheduled. scheduled.now.cents) also.entry) }
    ensures capped { All IsCapped prices.now → IfSome also.entry (λ scheduled. All IsCapped scheduled.now.cents) → All IsCapped result.now }
{
    match also {
        None => prices,
        Some(scheduled) => scheduled.cents.as_slice(),
    }
}

/// Writes the ledger of a run over whatever stands there.
///
/// The market's first orders are those of the bids with these numbers, one order each; its others are demands. The
/// activation is feasible and the prices are consistent with it. The rents, and who gets which half of them, are this
/// project's own rule. Where the quarter has scheduled prices, an upward bid is paid at the greater of them and the run's,
/// and a downward bid pays the lesser.
pub fn settle_run(
    zones: &ZoneBook,
    bids: &BidBook,
    market: &Market,
    numbers: &[u32],
    prices: &Prices,
    activation: &Activation,
    ledger: &mut Ledger,
    also: Option<&Prices>,
)
    requires operators_there { HasOperators zones.now }
    requires providers_there { HasProviders bids.now }
    requires market { IsValid market.now }
    requires zones { market.now.zones ≡ length zones.now.zones }
    requires feasible { IsFeasible market.now activation.now }
    requires consistent { IsConsistent market.now activation.now prices.now.cents }
    requires numbers { NameOrders bids.now.bids numbers.now market.now.orders }
    requires also { IfSome also (λ scheduled. ArePrices market.now scheduled.now.cents) }
    requires ledger { FitsRun ledger.old zones.now bids.now market.now }

    // Exactly the run's operators' lines, providers' amounts and rents, whatever stood there.
    ensures operators { ledger.new.operators ≡ operator_lines zones.now market.now activation.now prices.now.cents }
    ensures providers { ledger.new.providers ≡ provider_amounts bids.now numbers.now activation.now prices.now.cents
        (scheduled_or_in prices.now.cents (option_map (λ scheduled. scheduled.now.cents) also.entry)) }
    ensures rents { ledger.new.rents ≡ rents_of market.now activation.now prices.now.cents }

    // No border loses, and what all operators pay and get sums to 0.
    ensures rents_at_least_0 { All (λ rent. pos 0 ≤ℤ rent.0) ledger.new.rents }
    ensures nets_sum_to_0 { int_sum net_of ledger.new.operators ≡ pos 0 }

    // So a day's ledgers can be added up.
    ensures small { HasSmallNumbers ledger.new }
    ensures providers_small { All (λ q. q ≤ MOST_BID_MW) (take (length numbers.now) activation.now.mw)
        → All (MoneyIsWithin most_of_provider) ledger.new.providers }
    ensures operators_small { All (LineIsWithin most_of_operator) ledger.new.operators }
{
    let prices = prices.cents.as_slice();
    let scheduled = scheduled_or(prices, also);
    write_rents(ledger.rents.as_mut_slice(), market, activation, prices);
    write_lines(
        ledger.operators.as_mut_slice(),
        zones,
        market,
        activation,
        prices,
    );
    write_amounts(
        ledger.providers.as_mut_slice(),
        bids,
        numbers,
        activation,
        prices,
        scheduled,
    );
}
