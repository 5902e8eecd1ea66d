//! Dual values by ladders: of many at one market, each costs little.

ghost use Rattle.std.specs.Prelude.{◌≡◌, ℕ, ℤ, pos, ◌*◌, ◌*ℤ◌, ◌≤ℤ◌, ◌<ℤ◌, neg_ℤ, ◌≤◌, ◌<◌, ◌≢◌, ◌++◌, ◌∷◌, [], length, slice_index_or, IfOk, OnOk, IfSome};
ghost use Rattle.std.specs.List.{All};
ghost use Rattle.std.specs.List.Sorted.{IsPermutation};
ghost use Rattle.mari_market.specs.Dual.{dual_value_of};
ghost use Rattle.mari_market.specs.Bounds.{span_in};
ghost use Rattle.mari_market.specs.Market.{IsValid, IsValidOrder};
ghost use Rattle.mari_market.specs.Prefix.{bounds_at, IsFeasiblePrefix};
ghost use Rattle.mari_market.specs.Price.{IsCapped, IsPrice, ArePrices, price_at};
ghost use Rattle.mari_gates.specs.GateTable.{state_in};
ghost use Rattle.mari_proofs.specs.Tables.{gain_from, gain_of, ladder_at, last_rung, level_of, offer_of, rung_after, sum_below, zone_gain, AreGated, AreLaddersOf, AreOffersOf, AreRising, IsLadder, IsLadderOf, IsOffer, IsRising, IsSmallRung, IsTableOf};
ghost use Rattle.mari_proofs.specs.declared.table.Rung.{Rung as RungRecord};

use crate::dual::{amount, borders_value, orders_value, potential_at};
use mari_gates::{GateStates, states_at};
use mari_market::{MOST_ORDERS, MOST_WORTH, Market, Order, Prefix, Prices, Side};
use mari_units::{Cents, MOST_GATES, MOST_MW, MOST_ZONES, Quarters};
use std::alloc::{AllocError, Global};

/// The most items of a tree whose bounds are better tested without a table, which costs as much as some ten dual values.
pub const FEW_ITEMS: usize = 16;

/// A plain order as a ladder of its side has it.
#[derive(Clone, Copy, Drop)]
struct Offer {
    /// The number of its zone.
    zone: u32,
    /// Its price, in cents per MWh; of an order that takes energy the negative of it.
    price: i64,
    /// The greatest quantity that it may run, in MW.
    mw: u32,
}

/// A rung of a ladder: an offer, and the sums over the offers up to it.
#[derive(Clone, Copy, Drop)]
struct Rung {
    /// The offer's price.
    price: i64,
    /// The sum of the quantities, in MW.
    mw: u32,
    /// The sum of price times quantity, in quarter-cents.
    worth: i64,
}

/// A market's plain orders in ladders by zone and price, and its orders of a gate.
#[derive(Drop)]
pub struct DualTable {
    /// For each zone the orders that give energy.
    injecting: Vec<Vec<Rung>>,
    /// For each zone the orders that take it.
    withdrawing: Vec<Vec<Rung>>,
    /// The orders of a gate.
    gated: Vec<Order>,
}

/// The offer of an order on the ladders of a side.
fn offer_of(order: &Order, side: Side) -> Option<Offer>
    requires { IsPrice order.now.price.0 }
    ensures { result ≡ offer_of side order.now }
{
    let zone = order.zone;
    let mw = order.greatest;
    match (order.gate, side, order.side) {
        (None, Side::Inject, Side::Inject) => {
            let price = order.price.0;
            Some(Offer { zone, price, mw })
        }
        (None, Side::Withdraw, Side::Withdraw) => {
            let price = -order.price.0;
            Some(Offer { zone, price, mw })
        }
        _ => None,
    }
}

/// The offers of a side.
fn offers_of(alloc: Global, market: &Market, side: Side) -> Result<Vec<Offer>, AllocError>
    requires market { IsValid market.now }
    ensures few { IfOk result (λ v. length v.items ≤ MOST_ORDERS) }
    ensures offers { IfOk result (λ v. All (IsOffer market.now.zones) v.items) }
    ensures once { IfOk result (λ v. AreOffersOf side market.now.orders v.items) }
{
    let mut offers = Vec::new(alloc);
    for order in market.orders.as_slice() {
        if let Some(offer) = offer_of(order, side) {
            offers.push(offer)?;
        }
    }
    Ok(offers)
}

/// Sorts offers by their price, the cheapest first.
fn sort_offers(offers: &mut Vec<Offer>) -> Result<(), AllocError>
    ensures same { IsPermutation offers.old.items offers.new.items }
    ensures rising { OnOk result (AreRising offers.new.items) }
{
    offers.sort_by_key(|offer| offer.price)?;
    Ok(())
}

/// The rung of an offer after those of a ladder.
fn rung_after(ladder: &[Rung], offer: &Offer) -> Rung
    requires ladder { All (IsSmallRung MOST_ORDERS) ladder.now }
    requires offer { IsOffer MOST_ZONES offer.now }
    ensures { result ≡ rung_after (last_rung ladder.now) offer.now }
{
    let worth = amount(offer.price, offer.mw);
    let price = offer.price;
    match ladder.last() {
        None => Rung {
            price,
            mw: offer.mw,
            worth,
        },
        Some(last) => Rung {
            price,
            mw: last.mw + offer.mw,
            worth: last.worth + worth,
        },
    }
}

/// An empty ladder for each zone.
fn empty_ladders(alloc: Global, zones: usize) -> Result<Vec<Vec<Rung>>, AllocError>
    ensures long { IfOk result (λ v. length v.items ≡ zones) }
    ensures none { IfOk result (λ v. (z : ℕ) (d : _) → z < zones → (slice_index_or v.items z d).items ≡ []) }
{
    let mut ladders = Vec::with_capacity(alloc, zones)?;
    for _ in 0..zones {
        ladders.push(Vec::new(alloc))?;
    }
    Ok(ladders)
}

/// Adds a rung to the ladder of a zone.
fn add_to(ladders: &mut Vec<Vec<Rung>>, zone: usize, rung: Rung) -> Result<(), AllocError>
    requires zone { zone < length ladders.old.items }
    ensures long { length ladders.new.items ≡ length ladders.old.items }
    ensures here { OnOk result ((d e : _) → (slice_index_or ladders.new.items zone d).items ≡ (slice_index_or ladders.old.items zone e).items ++ rung ∷ []) }
    ensures others { (z : ℕ) (d : _) → z ≢ zone → slice_index_or ladders.new.items z d ≡ slice_index_or ladders.old.items z d }
{
    ladders[zone].push(rung)?;
    Ok(())
}

/// For each zone its ladder of these offers, the cheapest of which come first.
fn ladders_of(alloc: Global, offers: &[Offer], zones: usize) -> Result<Vec<Vec<Rung>>, AllocError>
    requires zones { zones ≤ MOST_ZONES }
    requires few { length offers.now ≤ MOST_ORDERS }
    requires offers { All (IsOffer zones) offers.now }
    requires rising { AreRising offers.now }
    ensures long { IfOk result (λ v. length v.items ≡ zones) }
    ensures ladders { IfOk result (λ v. (z : ℕ) (d : _) → z < zones → IsLadderOf z offers.now (slice_index_or v.items z d).items) }
{
    let mut ladders = empty_ladders(alloc, zones)?;
    for offer in offers {
        let zone = offer.zone as usize;
        let rung = rung_after(ladders[zone].as_slice(), offer);
        add_to(&mut ladders, zone, rung)?;
    }
    Ok(ladders)
}

/// For each zone its ladder of a side.
fn side_ladders(alloc: Global, market: &Market, side: Side) -> Result<Vec<Vec<Rung>>, AllocError>
    requires market { IsValid market.now }
    ensures { IfOk result (λ v. AreLaddersOf market.now side v.items) }
{
    let mut offers = offers_of(alloc, market, side)?;
    sort_offers(&mut offers)?;
    ladders_of(alloc, offers.as_slice(), market.zones as usize)
}

/// The orders of a gate.
fn gated_orders(alloc: Global, market: &Market) -> Result<Vec<Order>, AllocError>
    requires market { IsValid market.now }
    ensures { IfOk result (λ v. AreGated market.now v.items) }
{
    let mut gated = Vec::new(alloc);
    for order in market.orders.as_slice() {
        if order.gate.is_some() {
            gated.push(*order)?;
        }
    }
    Ok(gated)
}

impl DualTable {
    /// The table of a market.
    pub fn of(alloc: Global, market: &Market) -> Result<DualTable, AllocError>
        requires { IsValid market.now }
        ensures { IfOk result (IsTableOf market.now) }
    {
        let injecting = side_ladders(alloc, market, Side::Inject)?;
        let withdrawing = side_ladders(alloc, market, Side::Withdraw)?;
        let gated = gated_orders(alloc, market)?;
        Ok(DualTable {
            injecting,
            withdrawing,
            gated,
        })
    }
}

/// How many of a ladder's rungs cost less than this: the first.
fn rungs_below(ladder: &[Rung], level: i64) -> usize
    requires { IsRising ladder.now }
    ensures few { result ≤ length ladder.now }
    ensures below { (k : ℕ) (d : RungRecord) → k < result → (slice_index_or ladder.now k d).price <ℤ level }
    ensures rest { (k : ℕ) (d : RungRecord) → result ≤ k → k < length ladder.now → level ≤ℤ (slice_index_or ladder.now k d).price }
{
    ladder.partition_point(|rung| rung.price < level)
}

/// What a quantity is worth at a level.
fn worth_at(level: i64, mw: u32) -> i64
    requires level { IsPrice level }
    requires mw { mw ≤ MOST_MW * MOST_ORDERS }
    ensures value { result ≡ level *ℤ pos mw }
    ensures low { neg_ℤ (pos (MOST_WORTH * MOST_ORDERS)) ≤ℤ result }
    ensures high { result ≤ℤ pos (MOST_WORTH * MOST_ORDERS) }
{
    level * i64::from(mw)
}

/// What the offers up to a rung gain at a level.
fn gain_of(rung: &Rung, level: i64) -> i64
    requires rung { IsSmallRung MOST_ORDERS rung.now }
    requires level { IsPrice level }
    ensures value { result ≡ gain_of level rung.now }
    ensures low { neg_ℤ (pos (2 * (MOST_WORTH * MOST_ORDERS))) ≤ℤ result }
    ensures high { result ≤ℤ pos (2 * (MOST_WORTH * MOST_ORDERS)) }
{
    worth_at(level, rung.mw) - rung.worth
}

/// What the offers of a ladder gain at a level.
fn ladder_gain(ladder: &[Rung], level: i64) -> i64
    requires ladder { IsLadder ladder.now }
    requires level { IsPrice level }
    ensures value { result ≡ gain_from level (pos 0) ladder.now }
    ensures low { neg_ℤ (pos (2 * (MOST_WORTH * MOST_ORDERS))) ≤ℤ result }
    ensures high { result ≤ℤ pos (2 * (MOST_WORTH * MOST_ORDERS)) }
{
    match rungs_below(ladder, level) {
        0 => 0,
        count => gain_of(&ladder[count - 1], level),
    }
}

/// The level of a zone on the ladders of a side.
fn level_at(potentials: &[Cents], zone: u32, side: Side) -> i64
    requires zone { zone < length potentials.now }
    requires potentials { All IsCapped potentials.now }
    ensures value { result ≡ level_of side (price_at potentials.now zone) }
    ensures price { IsPrice result }
{
    let potential = potential_at(potentials, zone);
    match side {
        Side::Inject => potential.0,
        Side::Withdraw => -potential.0,
    }
}

/// What the plain orders of a side gain.
fn side_value(market: &Market, ladders: &[Vec<Rung>], side: Side, potentials: &[Cents]) -> i64
    requires market { IsValid market.now }
    requires ladders { AreLaddersOf market.now side ladders.now }
    requires one_each { length potentials.now ≡ market.now.zones }
    requires potentials { All IsCapped potentials.now }
    ensures value { result ≡ sum_below (λ z. gain_from (level_of side (price_at potentials.now z)) (pos 0) (ladder_at ladders.now z)) market.now.zones }
    ensures low { neg_ℤ (pos (2 * (MOST_WORTH * MOST_ORDERS) * MOST_ZONES)) ≤ℤ result }
    ensures high { result ≤ℤ pos (2 * (MOST_WORTH * MOST_ORDERS) * MOST_ZONES) }
{
    let mut total = 0;
    for zone in 0..market.zones {
        let ladder = ladders[zone as usize].as_slice();
        total += ladder_gain(ladder, level_at(potentials, zone, side));
    }
    total
}

/// The most that all orders gain and all borders earn.
fn total_value(market: &Market, table: &DualTable, states: &GateStates, potentials: &[Cents]) -> i64
    requires market { IsValid market.now }
    requires table { IsTableOf market.now table.now }
    requires one_each { length potentials.now ≡ market.now.zones }
    requires potentials { All IsCapped potentials.now }
    ensures { result ≡ dual_value_of (span_in (state_in states.now)) market.now potentials.now }
{
    let injecting = side_value(market, table.injecting.as_slice(), Side::Inject, potentials);
    let withdrawing = side_value(
        market,
        table.withdrawing.as_slice(),
        Side::Withdraw,
        potentials,
    );
    let gated = orders_value(table.gated.as_slice(), states, potentials);
    injecting + withdrawing + gated + borders_value(market.borders.as_slice(), potentials)
}

/// The dual value of potentials at a prefix, in quarter-cents, as `dual_value` says, by a table of the market.
pub fn dual_value_by(
    market: &Market,
    table: &DualTable,
    prefix: &Prefix,
    potentials: &Prices,
) -> Quarters
    requires market { IsValid market.now }
    requires table { IsTableOf market.now table.now }
    requires prefix { IsFeasiblePrefix market.now prefix.now }
    requires potentials { ArePrices market.now potentials.now.cents }
    ensures value { result.0 ≡ dual_value_of (bounds_at market.now prefix.now) market.now potentials.now.cents }
{
    let states = states_at(market, prefix);
    let total = total_value(market, table, &states, potentials.cents.as_slice());
    Quarters(i128::from(total))
}
