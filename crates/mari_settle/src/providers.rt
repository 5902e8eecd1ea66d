//! What providers get and pay for what their bids run.

ghost use Rattle.std.specs.Prelude.{◌≡◌, ◌==◌, ◌≤◌, ◌<◌, ◌*◌, ℕ, ℤ, pos, ◌+ℤ◌, if◌then◌else◌, length, unsigned_abs, slice_get};
ghost use Rattle.std.specs.List.{All};
ghost use Rattle.mari_market.specs.Price.{IsCapped, price_at};
ghost use Rattle.mari_market.specs.Sums.{sum_along};
ghost use Rattle.mari_settle.specs.Conditions.{IsSmall, NamesPayable, most_of_run};
ghost use Rattle.mari_settle.specs.Ledger.{bid_amount, earned as earned_by, paid_at, provider_amounts};
ghost use Rattle.mari_settle.specs.Lines.{amount_at};

use crate::rents::price_of;
use mari_bids::{Bid, BidBook};
use mari_market::{Activation, MOST_ORDERS, worth};
use mari_units::{CAP, Cents, MOST_MW, Quarters};

/// A number above what a bid earns, in quarter-cents: `CAP` times `MOST_MW` is 999,980,000,100.
const MOST_EARNED: u64 = 1_000_000_000_000;

/// The price that a bid is paid at: an upward one at the greater of the run's and the scheduled one, a downward one at
/// the lesser.
fn paid_price(bid: &Bid, prices: &[Cents], scheduled: &[Cents]) -> i64
    requires zone { bid.now.zone < length prices.now }
    requires lengths { length scheduled.now ≡ length prices.now }
    requires prices { All IsCapped prices.now }
    requires scheduled { All IsCapped scheduled.now }
    ensures value { result ≡ paid_at bid.now.up (price_at prices.now bid.now.zone) (price_at scheduled.now bid.now.zone) }
    ensures small { unsigned_abs result ≤ unsigned_abs CAP }
{
    let own = price_of(prices, bid.zone);
    let other = price_of(scheduled, bid.zone);
    if bid.up {
        own.max(other)
    } else {
        own.min(other)
    }
}

/// What a quantity of a bid earns its provider.
fn earned(bid: &Bid, mw: u32, prices: &[Cents], scheduled: &[Cents]) -> i128
    // The bid's zone has a price of the run, and a scheduled one.
    requires zone { bid.now.zone < length prices.now }
    requires lengths { length scheduled.now ≡ length prices.now }
    requires prices { All IsCapped prices.now }
    requires scheduled { All IsCapped scheduled.now }

    // No more than any order of a market runs.
    requires mw { mw ≤ MOST_MW }

    // The amount, in quarter-cents, and that it can be summed over all bids.
    ensures value { result ≡ earned_by bid.now.up (paid_at bid.now.up (price_at prices.now bid.now.zone) (price_at scheduled.now bid.now.zone)) mw }
    ensures small { unsigned_abs result ≤ MOST_EARNED }
{
    let worth = worth(Cents(paid_price(bid, prices, scheduled)), i64::from(mw));
    if bid.up { worth } else { -worth }
}

/// Sets each amount to 0.
fn set_to_zero(amounts: &mut [Quarters])
    ensures lengths { length amounts.new ≡ length amounts.old }
    ensures cleared { (k : ℕ) → amount_at amounts.new k ≡ pos 0 }
{
    for i in 0..amounts.len() {
        amounts[i] = Quarters(0);
    }
}

/// Adds to the amount of one provider.
fn pay(amounts: &mut [Quarters], provider: u32, amount: i128)
    requires provider { provider < length amounts.old }
    requires so_far { unsigned_abs (amount_at amounts.old provider) ≤ most_of_run }
    requires amount { unsigned_abs amount ≤ MOST_EARNED }
    ensures lengths { length amounts.new ≡ length amounts.old }
    ensures paid { (k : ℕ) → amount_at amounts.new k ≡ amount_at amounts.old k +ℤ (if provider == k then amount else pos 0) }
{
    amounts[provider as usize].0 += amount;
}

/// Pays each provider what its bids among these earn it.
fn pay_all(
    amounts: &mut [Quarters],
    bids: &BidBook,
    numbers: &[u32],
    mw: &[u32],
    prices: &[Cents],
    scheduled: &[Cents],
)
    // Nobody is paid yet.
    requires lengths { length amounts.old ≡ length bids.now.providers }
    requires cleared { (k : ℕ) → amount_at amounts.old k ≡ pos 0 }

    // What each of the bids runs.
    requires few { length numbers.now ≤ MOST_ORDERS }
    requires one_each { length numbers.now ≤ length mw.now }
    requires mw { All (λ q. q ≤ MOST_MW) mw.now }

    // The prices by which it is paid.
    requires lengths_too { length scheduled.now ≡ length prices.now }
    requires prices { All IsCapped prices.now }
    requires scheduled { All IsCapped scheduled.now }
    requires numbers { All (NamesPayable bids.now (length prices.now)) numbers.now }

    // Each provider's sum, which never runs over.
    ensures lengths { length amounts.new ≡ length bids.now.providers }
    ensures paid { (k : ℕ)
        → amount_at amounts.new k ≡ sum_along (λ number q. bid_amount prices.now scheduled.now k (slice_get bids.now.bids number) q) numbers.now mw.now }
    ensures small { (k : ℕ) → unsigned_abs (amount_at amounts.new k) ≤ MOST_ORDERS * MOST_EARNED }
{
    for (i, number) in numbers.iter().enumerate() {
        let bid = &bids.bids.as_slice()[*number as usize];
        pay(amounts, bid.provider, earned(bid, mw[i], prices, scheduled));
    }
}

/// Writes each provider's amount.
pub(crate) fn write_amounts(
    amounts: &mut [Quarters],
    bids: &BidBook,
    numbers: &[u32],
    activation: &Activation,
    prices: &[Cents],
    scheduled: &[Cents],
)
    // A place for each provider.
    requires lengths { length amounts.old ≡ length bids.now.providers }

    // What each of the bids runs.
    requires few { length numbers.now ≤ MOST_ORDERS }
    requires one_each { length numbers.now ≤ length activation.now.mw }
    requires mw { All (λ q. q ≤ MOST_MW) activation.now.mw }

    // The prices by which it is paid.
    requires lengths_too { length scheduled.now ≡ length prices.now }
    requires prices { All IsCapped prices.now }
    requires scheduled { All IsCapped scheduled.now }
    requires numbers { All (NamesPayable bids.now (length prices.now)) numbers.now }

    // Each provider's amount, whatever stood there.
    ensures value { amounts.new ≡ provider_amounts bids.now numbers.now activation.now prices.now scheduled.now }
    ensures small { All IsSmall amounts.new }
{
    set_to_zero(amounts);
    pay_all(
        amounts,
        bids,
        numbers,
        activation.mw.as_slice(),
        prices,
        scheduled,
    );
}
