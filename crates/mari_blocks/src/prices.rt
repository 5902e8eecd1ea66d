//! Prices of a joint market.
ghost use Rattle.std.specs.Prelude.{◌≡◌, ◌≤◌, ◌<◌, ℕ, Ok, true, is_some, length, IfOk};
ghost use Rattle.mari_market.specs.Interval.{AreGreatestPrices, AreLeastPrices, IsNearest};
ghost use Rattle.mari_market.specs.Market.{IsValid};
ghost use Rattle.mari_market.specs.Optimal.{IsAdmissible, IsConsistent};
ghost use Rattle.mari_market.specs.Price.{price_at};
ghost use Rattle.mari_prices.specs.Published.{AreInOrder};
ghost use Rattle.mari_remain.specs.Accepted.{IsAccepted};
ghost use Rattle.mari_blocks.specs.Joint.{joint_in, scheduled_run_of};
ghost use Rattle.mari_blocks.specs.Prices.{AreOwnPrices, own_reference as own_reference_of, zone_quarter};
ghost use Rattle.mari_blocks.specs.declared.blocks.BlockBook.{BlockBook};

use crate::joint::Joint;
use crate::runs::reference_of;
use mari_market::{Activation, Prices};
use mari_prices::{Pricing, nearest, published_prices};
use mari_remain::Books;
use mari_units::{Cents, Items, MOST_QUARTERS, Memory};
use std::alloc::Global;

/// The reference price of a zone's own quarter.
fn own_reference(books: &Books, first: u32, zone: u32) -> Cents
    requires accepted { IsAccepted books.now }
    requires last { zone_quarter books.now first zone ≤ MOST_QUARTERS }
    requires there { is_some (scheduled_run_of books.now.runs.runs (zone_quarter books.now first zone)) ≡ true }
    ensures { result.0 ≡ own_reference_of books.now first zone }
{
    reference_of(books, first + zone / books.zones.zones.len())
}

/// The price of each interval that is nearest to the reference of the zone's own quarter.
fn own_prices(
    alloc: Global,
    books: &Books,
    first: u32,
    least: &[Cents],
    greatest: &[Cents],
) -> Result<Vec<Cents>, Memory>
    requires accepted { IsAccepted books.now }
    requires intervals { AreInOrder least.now greatest.now }
    requires last { (zone : ℕ) → zone < length least.now → zone_quarter books.now first zone ≤ MOST_QUARTERS }
    requires there { (zone : ℕ) → zone < length least.now → is_some (scheduled_run_of books.now.runs.runs (zone_quarter books.now first zone)) ≡ true }
    ensures one_each { IfOk result (λ prices. length prices.items ≡ length least.now) }
    ensures nearest { IfOk result (λ prices. (zone : ℕ) → zone < length least.now
        → IsNearest (price_at least.now zone) (price_at greatest.now zone) (own_reference_of books.now first zone) (price_at prices.items zone)) }
{
    let mut prices = Vec::with_capacity(alloc, least.len())?;
    for (zone, low) in least.iter().enumerate() {
        let reference = own_reference(books, first, zone as u32);
        prices.push(nearest(*low, greatest[zone], reference))?;
    }
    Ok(prices)
}

/// The prices of an admissible activation of a joint market, whose first quarter this is: for each zone the least and
/// the greatest of its consistent prices, and the one from the least to the greatest that is nearest to the reference
/// price of its own quarter, which is published. All are in cents per MWh.
///
/// The published prices are together consistent, so no order of a block is at a loss in its quarter.
pub fn joint_prices(
    alloc: Global,
    books: &Books,
    first: u32,
    joint: &Joint,
    activation: &Activation,
) -> Result<Pricing, Memory>
    // The joint market of these books from this quarter on.
    requires accepted { IsAccepted books.now }
    requires joint { (blocks : BlockBook) × (last : ℕ) × (last ≤ MOST_QUARTERS) × (joint_in books.now blocks first last ≡ Ok joint.now) }
    requires valid { IsValid joint.now.market }
    requires admissible { IsAdmissible joint.now.market activation.now }
    ensures least { IfOk result (λ p. AreLeastPrices joint.now.market activation.now p.least.cents) }
    ensures greatest { IfOk result (λ p. AreGreatestPrices joint.now.market activation.now p.greatest.cents) }
    ensures published { IfOk result (λ p. AreOwnPrices joint.now.market activation.now (own_reference_of books.now first) p.published.cents) }
    ensures consistent { IfOk result (λ p. IsConsistent joint.now.market activation.now p.published.cents) }
{
    let intervals = published_prices(alloc, &joint.market, activation)?;
    let published = own_prices(
        alloc,
        books,
        first,
        intervals.least.cents.as_slice(),
        intervals.greatest.cents.as_slice(),
    )?;
    Ok(Pricing {
        least: intervals.least,
        greatest: intervals.greatest,
        published: Prices {
            cents: Items::of(published),
        },
    })
}
