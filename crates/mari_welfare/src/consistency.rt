//! Whether prices are consistent with an activation.

ghost use Rattle.std.specs.Prelude.{◌≡◌, ◌<◌, ◌≤◌, length, ◌≤ℤ◌, IsTrue, ◌↔◌};
ghost use Rattle.std.specs.List.{All, AllZip};
ghost use Rattle.mari_market.specs.Activation.{HasLengths};
ghost use Rattle.mari_market.specs.Consistent.{HasRoomBack, HasRoomOn, IsConsistentBorder, IsConsistentOrder, IsConsistentTrade, standing_of};
ghost use Rattle.mari_market.specs.Market.{IsValid, IsValidBorder};
ghost use Rattle.mari_market.specs.Optimal.{IsConsistent};
ghost use Rattle.mari_market.specs.Price.{price_at};
ghost use Rattle.mari_market.specs.Prefix.{opens_in};
ghost use Rattle.mari_welfare.specs.Parts.{OrdersAndBordersAgree};

use crate::gates::OpenGates;
use mari_market::{Activation, Border, Market, Order, Prices, Standing};
use mari_units::Cents;

/// The standing of an order where these gates are open.
fn standing_of_order(opened: &OpenGates, order: &Order) -> Standing
    ensures { result ≡ standing_of (opens_in opened.now) order.now.gate }
{
    match order.gate {
        None => Standing::Plain,
        Some(gate) if opened.has(gate) => Standing::InOpen,
        Some(_) => Standing::InClosed,
    }
}

/// Whether what an order runs is consistent with a price.
fn is_consistent_trade(standing: Standing, order: &Order, mw: u32, price: Cents) -> bool
    ensures { IsTrue result ↔ IsConsistentTrade standing order.now.side order.now.price.0 order.now.greatest mw price.0 }
{
    if order.sets_lower(standing, mw) && order.price.0 > price.0 {
        return false;
    }
    !(order.sets_upper(standing, mw) && order.price.0 < price.0)
}

/// Whether what an order runs is consistent with its zone's price.
fn is_consistent_order(opened: &OpenGates, order: &Order, mw: u32, prices: &[Cents]) -> bool
    requires { order.now.zone < length prices.now }
    ensures { IsTrue result ↔ IsConsistentOrder (opens_in opened.now) prices.now order.now mw }
{
    let standing = standing_of_order(opened, order);
    is_consistent_trade(standing, order, mw, prices[order.zone as usize])
}

/// Whether what each order runs is consistent with the price of its zone.
fn orders_agree(opened: &OpenGates, orders: &[Order], mw: &[u32], prices: &[Cents]) -> bool
    requires lengths { length mw.now ≡ length orders.now }
    requires zones { All (λ o. o.zone < length prices.now) orders.now }
    ensures { IsTrue result ↔ AllZip (IsConsistentOrder (opens_in opened.now) prices.now) orders.now mw.now }
{
    for (i, order) in orders.iter().enumerate() {
        if !is_consistent_order(opened, order, mw[i], prices) {
            return false;
        }
    }
    true
}

/// Whether a zone's price is at most another's.
fn is_no_dearer(prices: &[Cents], zone: u32, than: u32) -> bool
    requires zone { zone < length prices.now }
    requires than { than < length prices.now }
    ensures { IsTrue result ↔ (price_at prices.now zone ≤ℤ price_at prices.now than) }
{
    prices[zone as usize].0 <= prices[than as usize].0
}

/// Whether a border that could carry more leads to no dearer zone.
fn keeps_more(border: &Border, flow: i64, prices: &[Cents]) -> bool
    requires { IsValidBorder (length prices.now) border.now }
    ensures { IsTrue result ↔ (HasRoomOn border.now flow → price_at prices.now border.now.to ≤ℤ price_at prices.now border.now.from) }
{
    !border.has_room_on(flow) || is_no_dearer(prices, border.to, border.from)
}

/// Whether a border that could carry less leads to no cheaper zone.
fn keeps_less(border: &Border, flow: i64, prices: &[Cents]) -> bool
    requires { IsValidBorder (length prices.now) border.now }
    ensures { IsTrue result ↔ (HasRoomBack border.now flow → price_at prices.now border.now.from ≤ℤ price_at prices.now border.now.to) }
{
    !border.has_room_back(flow) || is_no_dearer(prices, border.from, border.to)
}

/// Whether the prices at a border's ends are consistent with its flow.
fn is_consistent_border(border: &Border, flow: i64, prices: &[Cents]) -> bool
    requires { IsValidBorder (length prices.now) border.now }
    ensures { IsTrue result ↔ IsConsistentBorder prices.now border.now flow }
{
    keeps_more(border, flow, prices) && keeps_less(border, flow, prices)
}

/// Whether prices are consistent with what flows over each border: one that could carry more leads to no dearer zone,
/// and one that could carry less to no cheaper one.
///
/// There is one flow for each border, in MW.
pub fn borders_agree(borders: &[Border], flow: &[i64], prices: &[Cents]) -> bool
    requires lengths { length flow.now ≡ length borders.now }
    requires borders { All (IsValidBorder (length prices.now)) borders.now }
    ensures { IsTrue result ↔ AllZip (IsConsistentBorder prices.now) borders.now flow.now }
{
    for (i, border) in borders.iter().enumerate() {
        if !is_consistent_border(border, flow[i], prices) {
            return false;
        }
    }
    true
}

/// Whether each order and each border is consistent with the prices.
fn orders_and_borders_agree(market: &Market, activation: &Activation, prices: &[Cents]) -> bool
    requires market { IsValid market.now }
    requires lengths { HasLengths market.now activation.now }
    requires zones { length prices.now ≡ market.now.zones }
    ensures { IsTrue result ↔ OrdersAndBordersAgree market.now activation.now prices.now }
{
    let (orders, mw) = (market.orders.as_slice(), activation.mw.as_slice());
    let (borders, flow) = (market.borders.as_slice(), activation.flow.as_slice());
    let opened = OpenGates::of(market, activation);
    orders_agree(&opened, orders, mw, prices) && borders_agree(borders, flow, prices)
}

/// Whether prices are consistent with an activation, by the marginal pricing of Article 30 of Regulation (EU)
/// 2017/2195 in whole MW and whole cents per MWh.
///
/// There are one price for each zone, one quantity for each order and one flow for each border; else the answer is
/// false. The activation need not be feasible.
pub fn is_consistent(market: &Market, activation: &Activation, prices: &Prices) -> bool
    requires { IsValid market.now }
    ensures { IsTrue result ↔ IsConsistent market.now activation.now prices.now.cents }
{
    let prices = prices.cents.as_slice();
    market.has_lengths(activation)
        && market.are_prices(prices)
        && orders_and_borders_agree(market, activation, prices)
}
