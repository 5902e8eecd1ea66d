//! What is printed of a clearing of a joint market: a part for each quarter.
ghost use Rattle.std.specs.Prelude.{◌≡◌, ◌<◌, ◌^◌, ◌+◌, ◌-◌, ◌≤◌, Ok, ℕ, IfOk, is_some, length, map, true};
ghost use Rattle.std.specs.List.{All};
ghost use Rattle.mari_zones.specs.declared.borders.BorderEnds.{BorderEnds as Ends};
ghost use Rattle.mari_rows.specs.Names.{name_at};
ghost use Rattle.mari_lines.specs.declared.line.BidLine.{BidLine as BidLineOf};
ghost use Rattle.mari_lines.specs.declared.line.BorderLine.{BorderLine as BorderLineOf};
ghost use Rattle.mari_lines.specs.declared.line.ZoneLine.{ZoneLine as ZoneLineOf};
ghost use Rattle.mari_market.specs.Clearing.{IsClearing};
ghost use Rattle.mari_market.specs.Market.{IsValid};
ghost use Rattle.mari_market.specs.Optimal.{IsAdmissible, IsOptimal};
ghost use Rattle.mari_remain.specs.Accepted.{IsAccepted};
ghost use Rattle.mari_blocks.specs.Blocks.{IsBlockBook};
ghost use Rattle.mari_blocks.specs.Cutting.{ArePrinted, HasShapes, IsAfter, IsCutOut, IsPriced, IsThere, piece};
ghost use Rattle.mari_blocks.specs.Joint.{joint_in, scheduled_run_of};
ghost use Rattle.mari_blocks.specs.Printed.{IsJointBlock, bids_of, demand_count as demand_count_in};
ghost use Rattle.mari_blocks.specs.Text.{JointFits};
ghost use Rattle.mari_blocks.specs.declared.blocks.BlockBook.{BlockBook};

use crate::joint::Joint;
use crate::prices::joint_prices;
use crate::runs::run_of_quarter;
use crate::text::{JointBlock, QuarterBlock};
use mari_market::{Activation, Clearing};
use mari_prices::{Pricing, areas};
use mari_progress::{bid_lines, border_lines, zone_lines};
use mari_publish::{BidLine, BorderLine, ZoneLine};
use mari_remain::{Books, bid_of};
use mari_settle::write_rents;
use mari_units::{Items, MOST_NODES, MOST_QUARTERS, Memory, Quarters};
use std::alloc::Global;

/// What is published of a clearing besides itself.
#[derive(Drop)]
struct Priced {
    /// The least, the greatest and the published price of each zone.
    pricing: Pricing,
    /// The number of the price area of each zone.
    areas: Vec<u32>,
    /// The rent of each border.
    rents: Items<Quarters>,
}

/// Where the lines of a quarter begin in the lists of the joint market.
#[derive(Clone, Copy, Drop)]
struct Place {
    /// How many zones come before.
    zones: usize,
    /// How many borders come before.
    borders: usize,
    /// How many bids come before.
    bids: usize,
    /// How many demands come before.
    demands: usize,
}

/// `count` items of a list, from the place `from` on.
fn cut<T>(items: &[T], from: usize, count: usize) -> &[T]
    requires { from + count ≤ length items.now }
    ensures { result.now ≡ piece from count items.now }
{
    &items[from..from + count]
}

/// How many of these bids are of a quarter.
fn bid_count(books: &Books, numbers: &[u32], quarter: u32) -> usize
    ensures { result ≡ length (bids_of books.now numbers.now quarter) }
{
    numbers
        .iter()
        .filter(|number| bid_of(books.bids.bids.as_slice(), **number).quarter == quarter)
        .count()
}

/// How many demands the scheduled run of a quarter has, which it has.
/// Counted among all demands: the lists by run, which `Remaining` has, aren't at hand here.
fn demand_count(books: &Books, quarter: u32) -> usize
    requires accepted { IsAccepted books.now }
    requires there { is_some (scheduled_run_of books.now.runs.runs quarter) ≡ true }
    ensures { result ≡ demand_count_in books.now quarter }
{
    let run = run_of_quarter(books, quarter);
    let demands = books.demands.demands.as_slice();
    demands.iter().filter(|demand| demand.run == run).count()
}

/// The prices, the areas and the rents of an activation of a joint market.
fn priced_of(
    alloc: Global,
    books: &Books,
    first: u32,
    joint: &Joint,
    activation: &Activation,
) -> Result<Priced, Memory>
    requires accepted { IsAccepted books.now }
    requires joint { (blocks : BlockBook) × (last : ℕ) × (last ≤ MOST_QUARTERS) × (joint_in books.now blocks first last ≡ Ok joint.now) }
    requires valid { IsValid joint.now.market }
    requires admissible { IsAdmissible joint.now.market activation.now }
    ensures { IfOk result (IsPriced books.now first joint.now activation.now) }
{
    let pricing = joint_prices(alloc, books, first, joint, activation)?;
    let areas = areas(alloc, &joint.market, activation)?;
    let count = joint.market.borders.as_slice().len();
    let mut rents = Items::of(vec![in alloc; Quarters(0); count]?);
    let prices = pricing.published.cents.as_slice();
    write_rents(rents.as_mut_slice(), &joint.market, activation, prices);
    Ok(Priced {
        pricing,
        areas,
        rents,
    })
}

/// The lines of the zones of a quarter, which begin at a place.
fn zones_at(
    alloc: Global,
    books: &Books,
    priced: &Priced,
    from: usize,
) -> Result<Items<ZoneLine>, Memory>
    requires accepted { IsAccepted books.now }
    requires there { from + length books.now.zones.zones ≤ length priced.now.areas.items }
    requires published { length priced.now.pricing.published.cents ≡ length priced.now.areas.items }
    requires least { length priced.now.pricing.least.cents ≡ length priced.now.areas.items }
    requires greatest { length priced.now.pricing.greatest.cents ≡ length priced.now.areas.items }
    ensures names { IfOk result (λ lines. map (λ (l : ZoneLineOf). l.name) lines ≡ books.now.zones.zones) }
    ensures prices { IfOk result (λ lines. map (λ (l : ZoneLineOf). l.price) lines
        ≡ piece from (length books.now.zones.zones) priced.now.pricing.published.cents) }
    ensures least { IfOk result (λ lines. map (λ (l : ZoneLineOf). l.least) lines
        ≡ piece from (length books.now.zones.zones) priced.now.pricing.least.cents) }
    ensures greatest { IfOk result (λ lines. map (λ (l : ZoneLineOf). l.greatest) lines
        ≡ piece from (length books.now.zones.zones) priced.now.pricing.greatest.cents) }
    ensures areas { IfOk result (λ lines. map (λ (l : ZoneLineOf). l.area) lines ≡ piece from (length books.now.zones.zones) priced.now.areas.items) }
{
    let count = books.zones.zones.len() as usize;
    let pricing = &priced.pricing;
    let published = cut(pricing.published.cents.as_slice(), from, count);
    let least = cut(pricing.least.cents.as_slice(), from, count);
    let greatest = cut(pricing.greatest.cents.as_slice(), from, count);
    let areas = cut(&priced.areas, from, count);
    let lines = zone_lines(alloc, &books.zones.zones, published, least, greatest, areas)?;
    Ok(Items::of(lines))
}

/// The lines of the borders of a quarter, which begin at a place.
fn borders_at(
    alloc: Global,
    books: &Books,
    flow: &[i64],
    rents: &[Quarters],
    from: usize,
) -> Result<Items<BorderLine>, Memory>
    requires accepted { IsAccepted books.now }
    requires there { from + length books.now.borders.borders ≤ length rents.now }
    requires flow { length flow.now ≡ length rents.now }
    ensures from { IfOk result (λ lines. map (λ (l : BorderLineOf). l.from) lines
        ≡ map (λ (b : Ends). name_at books.now.zones.zones b.from) books.now.borders.borders) }
    ensures to { IfOk result (λ lines. map (λ (l : BorderLineOf). l.to) lines
        ≡ map (λ (b : Ends). name_at books.now.zones.zones b.to) books.now.borders.borders) }
    ensures flow { IfOk result (λ lines. map (λ (l : BorderLineOf). l.flow) lines ≡ piece from (length books.now.borders.borders) flow.now) }
    ensures rents { IfOk result (λ lines. map (λ (l : BorderLineOf). l.rent) lines ≡ piece from (length books.now.borders.borders) rents.now) }
{
    let ends = books.borders.borders.as_slice();
    let flow = cut(flow, from, ends.len());
    let rents = cut(rents, from, ends.len());
    let lines = border_lines(alloc, &books.zones.zones, ends, flow, rents)?;
    Ok(Items::of(lines))
}

/// The lines of `count` bids of the joint market, from the place `from` on.
fn bids_at(
    alloc: Global,
    books: &Books,
    numbers: &[u32],
    mw: &[u32],
    from: usize,
    count: usize,
) -> Result<Items<BidLine>, Memory>
    requires accepted { IsAccepted books.now }
    requires named { All (λ number. number < length books.now.bids.bids) numbers.now }
    requires there { from + count ≤ length numbers.now }
    requires mw { length numbers.now ≤ length mw.now }
    ensures ids { IfOk result (λ lines. map (λ (l : BidLineOf). l.id) lines ≡ map (name_at books.now.bids.ids) (piece from count numbers.now)) }
    ensures mw { IfOk result (λ lines. map (λ (l : BidLineOf). l.mw) lines ≡ piece from count mw.now) }
{
    let numbers = cut(numbers, from, count);
    let mw = cut(mw, from, count);
    let lines = bid_lines(alloc, &books.bids.ids, numbers, mw)?;
    Ok(Items::of(lines))
}

/// What is printed of a quarter, whose lines begin at this place.
fn quarter_block(
    alloc: Global,
    books: &Books,
    joint: &Joint,
    activation: &Activation,
    priced: &Priced,
    quarter: u32,
    at: Place,
) -> Result<QuarterBlock, Memory>
    requires accepted { IsAccepted books.now }
    requires run { is_some (scheduled_run_of books.now.runs.runs quarter) ≡ true }
    requires named { All (λ number. number < length books.now.bids.bids) joint.now.bids }
    requires shapes { (count : ℕ) × HasShapes books.now count joint.now activation.now priced.now }
    requires there { IsThere books.now joint.now activation.now priced.now quarter at }
    ensures { IfOk result (IsCutOut books.now joint.now activation.now priced.now quarter at) }
{
    let numbers = joint.bids.as_slice();
    let mw = activation.mw.as_slice();
    let flow = activation.flow.as_slice();
    let bids = bid_count(books, numbers, quarter);
    let demands = demand_count(books, quarter);
    let zones = zones_at(alloc, books, priced, at.zones)?;
    let borders = borders_at(alloc, books, flow, priced.rents.as_slice(), at.borders)?;
    let bids = bids_at(alloc, books, numbers, mw, at.bids, bids)?;
    let demands = cut(mw, numbers.len() + at.demands, demands).to_vec(alloc)?;
    Ok(QuarterBlock {
        quarter,
        zones,
        borders,
        bids,
        demands: Items::of(demands),
    })
}

impl Place {
    /// The place after the lines of a quarter.
    fn after(self, books: &Books, block: &QuarterBlock) -> Place
        requires zones { self.zones + length books.now.zones.zones < 2 ^ 64 }
        requires borders { self.borders + length books.now.borders.borders < 2 ^ 64 }
        requires bids { self.bids + length block.now.bids < 2 ^ 64 }
        requires demands { self.demands + length block.now.demands < 2 ^ 64 }
        ensures { IsAfter books.now block.now self result }
    {
        Place {
            zones: self.zones + books.zones.zones.len() as usize,
            borders: self.borders + books.borders.borders.as_slice().len(),
            bids: self.bids + block.bids.as_slice().len(),
            demands: self.demands + block.demands.as_slice().len(),
        }
    }
}

/// What is printed of the quarters, one by one.
fn quarter_blocks(
    alloc: Global,
    books: &Books,
    first: u32,
    last: u32,
    joint: &Joint,
    activation: &Activation,
    priced: &Priced,
) -> Result<Vec<QuarterBlock>, Memory>
    requires accepted { IsAccepted books.now }
    requires in_order { first ≤ last }
    requires last { last ≤ MOST_QUARTERS }
    requires joint { (blocks : BlockBook) × IsBlockBook books.now.bids books.now.links first last blocks
        × (joint_in books.now blocks first last ≡ Ok joint.now) }
    requires valid { IsValid joint.now.market }
    requires shapes { HasShapes books.now (last + 1 - first) joint.now activation.now priced.now }
    ensures { IfOk result (λ quarters. ArePrinted books.now joint.now activation.now priced.now first last quarters.items) }
{
    let mut quarters = Vec::new(alloc);
    let mut at = Place {
        zones: 0,
        borders: 0,
        bids: 0,
        demands: 0,
    };
    for quarter in first..last + 1 {
        let block = quarter_block(alloc, books, joint, activation, priced, quarter, at)?;
        at = at.after(books, &block);
        quarters.push(block)?;
    }
    Ok(quarters)
}

/// The block of a first activation of the joint market of these quarters, which count from 1: a part for each quarter,
/// with the prices by its own reference, and the rents of its borders at these prices.
pub fn joint_block(
    alloc: Global,
    books: &Books,
    first: u32,
    last: u32,
    joint: &Joint,
    clearing: Clearing,
) -> Result<JointBlock, Memory>
    // The folder's books, and the joint market of these quarters.
    requires accepted { IsAccepted books.now }
    requires in_order { first ≤ last }
    requires last { last ≤ MOST_QUARTERS }
    requires joint { (blocks : BlockBook) × IsBlockBook books.now.bids books.now.links first last blocks
        × (joint_in books.now blocks first last ≡ Ok joint.now) }
    requires valid { IsValid joint.now.market }

    // An optimum of it.
    requires optimal { IsOptimal joint.now.market clearing.activation }

    // The block, by whatever budget the market was cleared.
    ensures block { (budget : ℕ) → IsClearing joint.now.market budget clearing → IfOk result (IsJointBlock books.now first last budget joint.now) }
    ensures fits { (budget : ℕ) → budget ≤ MOST_NODES → IsClearing joint.now.market budget clearing → IfOk result JointFits }
{
    let Ok(priced) = priced_of(alloc, books, first, joint, &clearing.activation) else {
        drop(clearing);
        return Err(Memory);
    };
    let activation = &clearing.activation;
    let Ok(quarters) = quarter_blocks(alloc, books, first, last, joint, activation, &priced) else {
        drop(clearing);
        drop(priced);
        return Err(Memory);
    };
    drop(priced);
    let Clearing { welfare, tree, .. } = clearing;
    Ok(JointBlock {
        first,
        last,
        welfare,
        quarters: Items::of(quarters),
        tree,
    })
}
