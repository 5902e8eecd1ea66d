//! The block of a published run.

ghost use Rattle.std.specs.Prelude.{◌≡◌, ◌≤◌, ◌<◌, [], ℕ, IfOk, IfSome, length, map, option_map};
ghost use Rattle.std.specs.List.{All};
ghost use Rattle.mari_units.specs.Names.{IsName};
ghost use Rattle.mari_market.specs.Clearing.{IsClearing};
ghost use Rattle.mari_market.specs.Optimal.{IsAdmissible};
ghost use Rattle.mari_market.specs.Price.{ArePrices};
ghost use Rattle.mari_publish.specs.Ranges.{EndingFits, FullFits, MarketFits};
ghost use Rattle.mari_remain.specs.Accepted.{IsAccepted};
ghost use Rattle.mari_progress.specs.Money.{amount_line, providers_among};
ghost use Rattle.mari_progress.specs.Runs.{IsMarketOf, IsRunOf};
ghost use Rattle.mari_day.specs.Assembled.{HasShapes, IsAssembled, IsPriced};
ghost use Rattle.mari_day.specs.Dated.{IsDated};
ghost use Rattle.mari_day.specs.Published.{IsPublishedOf, IsReportedOf};

use crate::lines::{amount_lines, money_lines};
use mari_bids::BidBook;
use mari_market::{Activation, Clearing, Prices};
use mari_prices::{Pricing, areas, published_prices};
use mari_progress::{
    SettledRun, bid_lines, border_lines, demand_mws, heading, ledger_of, providers_of, zone_lines,
};
use mari_publish::{AmountLine, FullBlock};
use mari_remain::{Books, RunMarket};
use mari_settle::Ledger;
use mari_units::{Items, MOST_NODES, Memory, Quarters};
use std::alloc::Global;

/// What is published of a clearing besides itself.
#[derive(Drop)]
pub struct Priced {
    /// The least, the greatest and the published price of each zone.
    pub pricing: Pricing,
    /// The number of the price area of each zone.
    pub areas: Vec<u32>,
    /// Its ledger.
    pub ledger: Ledger,
}

/// The block of a published run, and what it adds to its day.
#[derive(Drop)]
pub struct PublishedRun {
    /// The block.
    pub block: FullBlock,
    /// What it adds to its day.
    pub settled: SettledRun,
}

/// A block, and the activation that it states.
#[derive(Drop)]
struct Assembled {
    block: FullBlock,
    activation: Activation,
}

/// The block of a clearing, with no certificate tree yet.
fn block_without_tree(
    alloc: Global,
    books: &Books,
    run: u32,
    numbers: &[u32],
    clearing: &Clearing,
    priced: &Priced,
) -> Result<FullBlock, Memory>
    requires accepted { IsAccepted books.now }
    requires run { 1 ≤ run }
    requires there { All (λ number. number < length books.now.bids.bids) numbers.now }
    requires shapes { HasShapes books.now numbers.now clearing.now priced.now }
    ensures { IfOk result (IsAssembled books.now run numbers.now (record clearing.now { tree = [] }) priced.now) }
{
    let names = &books.zones.zones;
    let mw = clearing.activation.mw.as_slice();
    let flow = clearing.activation.flow.as_slice();
    let ends = books.borders.borders.as_slice();
    let ledger = &priced.ledger;
    let zones = zone_lines(
        alloc,
        names,
        priced.pricing.published.cents.as_slice(),
        priced.pricing.least.cents.as_slice(),
        priced.pricing.greatest.cents.as_slice(),
        &priced.areas,
    )?;
    let borders = border_lines(alloc, names, ends, flow, ledger.rents.as_slice())?;
    let bids = bid_lines(alloc, &books.bids.ids, numbers, mw)?;
    let demands = demand_mws(alloc, mw, numbers.len())?;
    let operators = money_lines(alloc, &books.zones.operators, ledger.operators.as_slice())?;
    let providers = provider_lines(alloc, &books.bids, numbers, ledger.providers.as_slice())?;
    Ok(FullBlock {
        heading: heading(books, run),
        welfare: clearing.welfare,
        zones: Items::of(zones),
        borders: Items::of(borders),
        bids: Items::of(bids),
        demands: Items::of(demands),
        tree: Items::of(Vec::new(alloc)),
        operators: Items::of(operators),
        providers: Items::of(providers),
    })
}

/// Puts the block of a clearing together.
fn assemble(
    alloc: Global,
    books: &Books,
    run: u32,
    numbers: &[u32],
    clearing: Clearing,
    priced: &Priced,
) -> Result<Assembled, Memory>
    requires accepted { IsAccepted books.now }
    requires run { 1 ≤ run }
    requires there { All (λ number. number < length books.now.bids.bids) numbers.now }
    requires shapes { HasShapes books.now numbers.now clearing priced.now }
    ensures block { IfOk result (λ made. IsAssembled books.now run numbers.now clearing priced.now made.block) }
    ensures activation { IfOk result (λ made. made.activation ≡ clearing.activation) }
{
    let Ok(mut block) = block_without_tree(alloc, books, run, numbers, &clearing, priced) else {
        drop(clearing);
        return Err(Memory);
    };
    let Clearing {
        activation,
        tree,
        ..
    } = clearing;
    block.tree = tree;
    Ok(Assembled { block, activation })
}

/// A line for each provider of these bids.
fn provider_lines(
    alloc: Global,
    bids: &BidBook,
    numbers: &[u32],
    amounts: &[Quarters],
) -> Result<Vec<AmountLine>, Memory>
    requires names { All IsName bids.now.providers }
    requires one_each { length amounts.now ≡ length bids.now.providers }
    requires there { All (λ place. place < length bids.now.providers) (providers_among bids.now.bids numbers.now) }
    ensures { IfOk result (λ lines. lines.items ≡ map (amount_line bids.now.providers amounts.now) (providers_among bids.now.bids numbers.now)) }
{
    let places = providers_of(alloc, bids.bids.as_slice(), numbers)?;
    amount_lines(alloc, &bids.providers, &places, amounts)
}

/// The prices, the areas and the ledger of a run's clearing.
fn priced_of(
    alloc: Global,
    books: &Books,
    made: &RunMarket,
    clearing: &Clearing,
    also: Option<&Prices>,
) -> Result<Priced, Memory>
    requires accepted { IsAccepted books.now }
    requires made { IsMarketOf books.now made.now }
    requires admissible { IsAdmissible made.now.market clearing.now.activation }
    requires also { IfSome also (λ scheduled. ArePrices made.now.market scheduled.now.cents) }
    ensures { IfOk result (IsPriced books.now made.now (option_map (λ scheduled. scheduled.now.cents) also.entry) clearing.now) }
{
    let activation = &clearing.activation;
    let pricing = published_prices(alloc, &made.market, activation)?;
    let areas = areas(alloc, &made.market, activation)?;
    let ledger = ledger_of(alloc, books, made, &pricing.published, activation, also)?;
    Ok(Priced {
        pricing,
        areas,
        ledger,
    })
}

/// The block of a published run, and what it adds to its day. The run's quarter has these scheduled prices, or none.
pub fn published_run(
    alloc: Global,
    books: &Books,
    run: u32,
    made: RunMarket,
    clearing: Clearing,
    also: Option<&Prices>,
) -> Result<PublishedRun, Memory>
    // The folder's books, and one of their runs.
    requires accepted { IsAccepted books.now }
    requires dated { IsDated books.now }
    requires run { (1 ≤ run) × (run ≤ length books.now.runs.runs) }

    // Its market and an admissible activation of it, with the scheduled prices if there are any.
    requires made { IsMarketOf books.now made }
    requires admissible { IsAdmissible made.market clearing.activation }
    requires also { IfSome also (λ scheduled. ArePrices made.market scheduled.now.cents) }

    // What the block says of the clearing, of which nothing but the activation is asked.
    ensures market_fits { IfOk result (λ p. MarketFits p.block) }
    ensures ending_fits { IfOk result (λ p. EndingFits p.block) }
    ensures reported { IfOk result (λ p. IsReportedOf books.now run made (option_map (λ scheduled. scheduled.now.cents) also.entry) clearing p.block) }

    // The block, by whatever budget the market was cleared.
    ensures published { (budget : ℕ) → IsClearing made.market budget clearing
        → IfOk result (λ p. IsPublishedOf books.now budget run made (option_map (λ scheduled. scheduled.now.cents) also.entry) p.block) }
    ensures fits { (budget : ℕ) → budget ≤ MOST_NODES → IsClearing made.market budget clearing → IfOk result (λ p. FullFits p.block) }

    // What the block adds to its day.
    ensures settled { IfOk result (λ p. IsRunOf books.now made (option_map (λ scheduled. scheduled.now.cents) also.entry) p.block p.settled) }
{
    let Ok(priced) = priced_of(alloc, books, &made, &clearing, also) else {
        drop(made);
        drop(clearing);
        return Err(Memory);
    };
    let Ok(done) = assemble(alloc, books, run, made.bids.as_slice(), clearing, &priced) else {
        drop(made);
        drop(priced);
        return Err(Memory);
    };
    let Assembled { block, activation } = done;
    let Priced {
        pricing,
        ledger,
        ..
    } = priced;
    Ok(PublishedRun {
        block,
        settled: SettledRun {
            made,
            activation,
            prices: pricing.published,
            ledger,
        },
    })
}
