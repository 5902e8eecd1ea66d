//! Plain orders of a side by zone and price, with the sums that say at once what those of a zone up to a price offer.

ghost use Rattle.std.specs.Prelude.{◌≡◌, ℕ, ℤ, pos, ◌*◌, ◌+◌, ◌+ℤ◌, ◌-ℤ◌, ◌*ℤ◌, ◌≤ℤ◌, neg_ℤ, ◌≤◌, ◌<◌, length, take, slice_index_or, IfOk, OnOk};
ghost use Rattle.std.specs.List.{All};
ghost use Rattle.std.specs.List.Sorted.{IsPermutation};
ghost use Rattle.mari_market.specs.Market.{IsValid};
ghost use Rattle.mari_market.specs.Price.{IsCapped, IsPrice};
ghost use Rattle.mari_proofs.specs.Tables.{level_of};
ghost use Rattle.mari_market.specs.Rising.{RisesBy};
ghost use Rattle.mari_market.specs.Sums.{int_at, int_sum};
ghost use Rattle.mari_reach.specs.Ladders.{gain_at, gain_by, mw_in, offer_of, place_of, rung_of, up_to, AreOffersOf, AreSmall, AreSumsBefore, AreSumsOf, AreSumsUpTo, IsLadder, IsLadderOf, IsOffer};
ghost use Rattle.mari_reach.specs.Tables.{IsZoneSet};
ghost use Rattle.mari_reach.specs.Values.{cut_level, put_by};
ghost use Rattle.mari_reach.specs.declared.ladders.Offer.{Offer as OfferRecord};

use crate::levels::{Levels, cut_level};
use crate::prices::PriceBox;
use crate::worth::{amount, potential_at};
use crate::zones::ZoneSet;
use mari_market::{CutSide, MOST_ORDERS, MOST_WORTH, Market, Order, Side};
use mari_units::{CAP, Cents, MOST_MW, MOST_ZONES, Memory};
use std::alloc::Global;

/// How far the places of two zones are apart: more than two prices may be.
const ZONE: i64 = 20_000_000;

/// A plain order as the ladder of its side has it.
#[derive(Clone, Copy, Drop)]
pub(crate) struct Offer {
    /// Where it stands: by its zone, and there by its price.
    place: i64,
    /// The number of its zone.
    zone: u32,
    /// Its price, in cents per MWh; of an order that takes energy the negative of it.
    price: i64,
    /// The greatest quantity that it may run, in MW.
    mw: u32,
}

/// Sums over offers.
#[derive(Clone, Copy, Drop)]
pub(crate) struct Sums {
    /// Of their quantities, in MW.
    pub(crate) mw: i64,
    /// Of price times quantity, in quarter-cents.
    pub(crate) worth: i64,
}

/// The plain orders of a side in the order of their places.
#[derive(Drop)]
pub(crate) struct Ladder {
    /// The offers.
    offers: Vec<Offer>,
    /// The sums over the first of them, for each number from none on.
    sums: Vec<Sums>,
    /// For each zone the sums over the offers of earlier zones.
    starts: Vec<Sums>,
}

/// Where an offer of a zone at a price stands.
fn place_of(zone: u32, price: i64) -> i64
    requires zone { zone < MOST_ZONES }
    requires low { neg_ℤ CAP ≤ℤ price }
    requires high { price ≤ℤ (CAP +ℤ pos 1) }
    ensures { result ≡ place_of zone price }
{
    i64::from(zone) * ZONE + price
}

/// An offer of a zone at a price.
fn offer_at(zone: u32, price: i64, mw: u32) -> Offer
    requires zone { zone < MOST_ZONES }
    requires price { IsPrice price }
    ensures place { result.place ≡ place_of zone price }
    ensures zone { result.zone ≡ zone }
    ensures price { result.price ≡ price }
    ensures mw { result.mw ≡ mw }
{
    Offer {
        place: place_of(zone, price),
        zone,
        price,
        mw,
    }
}

/// The offer of an order on the ladder of a side.
fn offer_of(order: &Order, side: Side) -> Option<Offer>
    requires zone { order.now.zone < MOST_ZONES }
    requires price { IsPrice order.now.price.0 }
    ensures { result ≡ offer_of side order.now }
{
    match (order.gate, side, order.side) {
        (None, Side::Inject, Side::Inject) => {
            Some(offer_at(order.zone, order.price.0, order.greatest))
        }
        (None, Side::Withdraw, Side::Withdraw) => {
            Some(offer_at(order.zone, -order.price.0, order.greatest))
        }
        _ => None,
    }
}

/// The offers of a side.
fn offers_of(alloc: Global, market: &Market, side: Side) -> Result<Vec<Offer>, Memory>
    requires market { IsValid market.now }
    ensures few { IfOk result (λ v. length v.items ≤ MOST_ORDERS) }
    ensures offers { IfOk result (λ v. All (IsOffer market.now.zones) v.items) }
    ensures once { IfOk result (λ v. AreOffersOf side market.now.orders v.items) }
{
    let mut offers = Vec::new(alloc);
    for order in market.orders.as_slice() {
        if let Some(offer) = offer_of(order, side) {
            offers.push(offer)?;
        }
    }
    Ok(offers)
}

/// Puts offers in the order of their places.
fn sort_offers(offers: &mut Vec<Offer>) -> Result<(), Memory>
    ensures same { IsPermutation offers.old.items offers.new.items }
    ensures rising { OnOk result (RisesBy (λ (x : OfferRecord). x.place) offers.new.items) }
{
    offers.sort_by_key(|offer| offer.place)?;
    Ok(())
}

impl Sums {
    /// The sums over no offer.
    fn none() -> Sums
        ensures mw { result.mw ≡ pos 0 }
        ensures worth { result.worth ≡ pos 0 }
    {
        Sums { mw: 0, worth: 0 }
    }

    /// The sums over one offer more.
    fn with(self, offer: &Offer) -> Sums
        requires price { IsPrice offer.now.price }
        requires mw { offer.now.mw ≤ MOST_MW }
        requires small { AreSmall self }
        ensures mw { result.mw ≡ self.mw +ℤ pos offer.now.mw }
        ensures worth { result.worth ≡ self.worth +ℤ offer.now.price *ℤ pos offer.now.mw }
    {
        Sums {
            mw: self.mw + i64::from(offer.mw),
            worth: self.worth + amount(offer.price, offer.mw),
        }
    }

    /// These sums without others.
    fn without(self, others: Sums) -> Sums
        requires small { AreSmall self }
        requires others { AreSmall others }
        ensures mw { result.mw ≡ self.mw -ℤ others.mw }
        ensures worth { result.worth ≡ self.worth -ℤ others.worth }
    {
        Sums {
            mw: self.mw - others.mw,
            worth: self.worth - others.worth,
        }
    }
}

/// The sums over the first offers, for each number of them from none on.
fn sums_of(alloc: Global, offers: &[Offer]) -> Result<Vec<Sums>, Memory>
    requires few { length offers.now ≤ MOST_ORDERS }
    requires offers { All (IsOffer MOST_ZONES) offers.now }
    ensures long { IfOk result (λ v. length v.items ≡ length offers.now + 1) }
    ensures sums { IfOk result (λ v. (k : ℕ) (d : _) → k ≤ length offers.now → AreSumsOf (take k offers.now) (slice_index_or v.items k d)) }
{
    let mut last = Sums::none();
    let mut sums = Vec::new(alloc);
    sums.push(last)?;
    for offer in offers {
        last = last.with(offer);
        sums.push(last)?;
    }
    Ok(sums)
}

/// The sums over the offers before a place.
fn sums_before(offers: &[Offer], sums: &[Sums], place: i64) -> Sums
    requires rising { RisesBy (λ (x : OfferRecord). x.place) offers.now }
    requires long { length sums.now ≡ length offers.now + 1 }
    requires sums { (k : ℕ) (d : _) → k ≤ length offers.now → AreSumsOf (take k offers.now) (slice_index_or sums.now k d) }
    ensures { AreSumsBefore offers.now place result }
{
    sums[offers.partition_point(|offer| offer.place < place)]
}

/// For each zone the sums over the offers of earlier zones.
fn starts_of(
    alloc: Global,
    offers: &[Offer],
    sums: &[Sums],
    zones: u32,
) -> Result<Vec<Sums>, Memory>
    requires few { zones ≤ MOST_ZONES }
    requires rising { RisesBy (λ (x : OfferRecord). x.place) offers.now }
    requires long { length sums.now ≡ length offers.now + 1 }
    requires sums { (k : ℕ) (d : _) → k ≤ length offers.now → AreSumsOf (take k offers.now) (slice_index_or sums.now k d) }
    ensures long { IfOk result (λ v. length v.items ≡ zones) }
    ensures starts { IfOk result (λ v. (z : ℕ) (d : _) → z < zones → AreSumsBefore offers.now (place_of z (neg_ℤ CAP)) (slice_index_or v.items z d)) }
{
    let mut starts = Vec::new(alloc);
    for zone in 0..zones {
        starts.push(sums_before(offers, sums, place_of(zone, -CAP)))?;
    }
    Ok(starts)
}

impl Ladder {
    /// The ladder of a market's plain orders of a side.
    pub(crate) fn of(alloc: Global, market: &Market, side: Side) -> Result<Ladder, Memory>
        requires { IsValid market.now }
        ensures { IfOk result (IsLadderOf market.now side) }
    {
        let mut offers = offers_of(alloc, market, side)?;
        sort_offers(&mut offers)?;
        let sums = sums_of(alloc, offers.as_slice())?;
        let starts = starts_of(alloc, offers.as_slice(), sums.as_slice(), market.zones)?;
        Ok(Ladder {
            offers,
            sums,
            starts,
        })
    }

    /// The sums over the offers of a zone that are cheaper than a level.
    pub(crate) fn up_to(&self, zone: u32, level: i64) -> Sums
        requires ladder { IsLadder self.now }
        requires zone { zone < length self.now.starts.items }
        requires level_low { neg_ℤ CAP ≤ℤ level }
        requires level_high { level ≤ℤ (CAP +ℤ pos 1) }
        ensures sums { AreSumsUpTo self.now.offers.items zone level result }
        ensures small { AreSmall result }
    {
        let place = place_of(zone, level);
        let sums = sums_before(self.offers.as_slice(), self.sums.as_slice(), place);
        sums.without(self.starts[zone as usize])
    }
}

/// A level of prices as the ladder of a side has it.
fn rung_of(side: Side, level: i64) -> i64
    ensures value { result ≡ rung_of side level }
    ensures low { neg_ℤ CAP ≤ℤ result }
    ensures high { result ≤ℤ (CAP +ℤ pos 1) }
{
    match side {
        Side::Inject => level.max(-CAP).min(CAP + 1),
        Side::Withdraw => -level.max(-CAP - 1).min(CAP),
    }
}

/// A price as the ladder of a side has it.
fn price_on(side: Side, price: Cents) -> i64
    requires { IsPrice price.0 }
    ensures value { result ≡ level_of side price.0 }
    ensures low { neg_ℤ CAP ≤ℤ result }
    ensures high { result ≤ℤ CAP }
{
    match side {
        Side::Inject => price.0,
        Side::Withdraw => -price.0,
    }
}

/// What offers of these sums gain at a price.
fn gain_of(sums: Sums, price: i64) -> i64
    requires sums { AreSmall sums }
    requires price { IsPrice price }
    ensures value { result ≡ price *ℤ sums.mw -ℤ sums.worth }
    ensures low { neg_ℤ (pos (2 * (MOST_WORTH * MOST_ORDERS))) ≤ℤ result }
    ensures high { result ≤ℤ pos (2 * (MOST_WORTH * MOST_ORDERS)) }
{
    price * sums.mw - sums.worth
}

impl Ladder {
    /// What the offers of a zone gain at a price, where those run that are cheaper than a level.
    fn gain_at(&self, zone: u32, level: i64, price: i64) -> i64
        requires ladder { IsLadder self.now }
        requires zone { zone < length self.now.starts.items }
        requires level_low { neg_ℤ CAP ≤ℤ level }
        requires level_high { level ≤ℤ (CAP +ℤ pos 1) }
        requires price { IsPrice price }
        ensures value { result ≡ int_sum (up_to (gain_at price) zone level) self.now.offers.items }
        ensures low { neg_ℤ (pos (2 * (MOST_WORTH * MOST_ORDERS))) ≤ℤ result }
        ensures high { result ≤ℤ pos (2 * (MOST_WORTH * MOST_ORDERS)) }
    {
        gain_of(self.up_to(zone, level), price)
    }

    /// What the offers of a side gain at their zones' potentials, where those run that are better than the level there.
    pub(crate) fn gain(&self, side: Side, levels: &Levels, potentials: &[Cents]) -> i64
        requires ladder { IsLadder self.now }
        requires one_each { length self.now.starts.items ≡ length potentials.now }
        requires potentials { All IsCapped potentials.now }
        ensures value { result ≡ int_sum (gain_by side levels.now potentials.now) self.now.offers.items }
        ensures low { neg_ℤ (pos (2 * (MOST_WORTH * MOST_ORDERS) * MOST_ZONES)) ≤ℤ result }
        ensures high { result ≤ℤ pos (2 * (MOST_WORTH * MOST_ORDERS) * MOST_ZONES) }
    {
        let mut total = 0;
        for zone in 0..potentials.len() as u32 {
            let level = rung_of(side, levels.at(side, zone));
            total += self.gain_at(zone, level, price_on(side, potential_at(potentials, zone)));
        }
        total
    }

    /// What a cut counts of the offers of a zone, if it is one of the set.
    fn put_at(&self, cut: CutSide, side: Side, prices: &PriceBox, set: &ZoneSet, zone: u32) -> i64
        requires ladder { IsLadder self.now }
        requires set { IsZoneSet set.now }
        requires zone { zone < length self.now.starts.items }
        ensures value { result ≡ int_sum (up_to (mw_in set.now.zones.now zone) zone
            (rung_of side (cut_level cut side (int_at prices.now.low zone) (int_at prices.now.high zone)))) self.now.offers.items }
        ensures least { pos 0 ≤ℤ result }
        ensures most { result ≤ℤ pos (MOST_MW * MOST_ORDERS) }
    {
        if !set.has(zone) {
            return 0;
        }
        let low = prices.low[zone as usize];
        let high = prices.high[zone as usize];
        self.up_to(zone, rung_of(side, cut_level(cut, side, low, high)))
            .mw
    }

    /// What a cut counts of the offers of a side.
    pub(crate) fn put(&self, cut: CutSide, side: Side, prices: &PriceBox, set: &ZoneSet) -> i64
        requires ladder { IsLadder self.now }
        requires set { IsZoneSet set.now }
        ensures value { result ≡ int_sum (put_by cut side prices.now set.now.zones.now) self.now.offers.items }
        ensures least { pos 0 ≤ℤ result }
        ensures most { result ≤ℤ pos (MOST_MW * MOST_ORDERS * MOST_ZONES) }
    {
        let mut total = 0;
        for zone in 0..self.starts.len() as u32 {
            total += self.put_at(cut, side, prices, set, zone);
        }
        total
    }
}
