//! What operators pay for the energy that their zones take in, and their parts of the rents.

ghost use Rattle.std.specs.Prelude.{◌≡◌, ◌≤◌, ◌*◌, ◌<◌, ℤ, length, if◌then◌else◌, pos, ◌-ℤ◌, ◌+ℤ◌, ◌*ℤ◌, unsigned_abs};
ghost use Rattle.std.specs.List.{All};
ghost use Rattle.mari_market.specs.Activation.{IsWithinLimits};
ghost use Rattle.mari_market.specs.Market.{IsValid, IsValidBorder};
ghost use Rattle.mari_market.specs.Price.{IsCapped, price_at};
ghost use Rattle.mari_settle.specs.Conditions.{HasFlows, IsSmallLine, Settles};
ghost use Rattle.mari_settle.specs.Ledger.{carried_in as carried_into, half_of, net_import as net_import_of, operator_at, operator_lines, operator_payment as payment_of, payment_at, operator_rent as rent_of_operator, rent_of as rent_at, share_of};

use crate::ledger::OperatorLine;
use crate::rents::{price_of, rent_of};
use mari_market::{Activation, Border, MOST_WORTH, Market, worth};
use mari_units::{CAP, Cents, MOST_BORDERS, MOST_ZONES, Quarters};
use mari_zones::ZoneBook;

/// A number above what a border brings into a zone or takes out of it, in MW: twice `MOST_FLOW` is 399,996.
const MOST_CARRIED: u64 = 400_000;

/// A number above what all borders together bring into a zone, in MW: `MOST_CARRIED` for each of `MOST_BORDERS`.
const MOST_IMPORT: u64 = 102_400_000;

/// Half of a rent, rounded down to a quarter-cent.
fn lesser_half(rent: i128) -> i128
    requires { unsigned_abs rent ≤ MOST_WORTH }
    ensures value { result ≡ half_of rent }
    ensures small { unsigned_abs result ≤ MOST_WORTH }
{
    rent.div_euclid(2)
}

/// The other half, with an odd quarter-cent.
fn greater_half(rent: i128) -> i128
    requires { unsigned_abs rent ≤ MOST_WORTH }
    ensures value { result ≡ rent -ℤ half_of rent }
    ensures small { unsigned_abs result ≤ MOST_WORTH }
{
    rent - lesser_half(rent)
}

/// A part of a rent for one to whom it is due, and nothing for another.
fn part_if(due: bool, part: i128) -> i128
    requires { unsigned_abs part ≤ MOST_WORTH }
    ensures value { result ≡ (if due then part else pos 0) }
    ensures small { unsigned_abs result ≤ MOST_WORTH }
{
    if due { part } else { 0 }
}

/// What an operator gets of a rent, where it operates the border's first zone, its second one, or both.
fn share(first: bool, second: bool, rent: i128) -> i128
    requires { unsigned_abs rent ≤ MOST_WORTH }
    ensures value { result ≡ (if first then rent -ℤ half_of rent else pos 0) +ℤ (if second then half_of rent else pos 0) }
    ensures small { unsigned_abs result ≤ 2 * MOST_WORTH }
{
    part_if(first, greater_half(rent)) + part_if(second, lesser_half(rent))
}

/// The operator of a zone.
fn operator_of(zones: &ZoneBook, zone: u32) -> usize
    requires { zone < length zones.now.operator_of }
    ensures { result ≡ operator_at zones.now zone }
{
    zones.operator_of.as_slice()[zone as usize] as usize
}

/// What an operator gets of the rent of a border.
fn share_of_border(
    zones: &ZoneBook,
    border: &Border,
    flow: i64,
    prices: &[Cents],
    operator: usize,
) -> i128
    requires zones { length zones.now.operator_of ≡ length prices.now }
    requires border { IsValidBorder (length prices.now) border.now }
    requires prices { All IsCapped prices.now }
    requires flow { IsWithinLimits border.now flow }
    ensures value { result ≡ share_of (operator_at zones.now border.now.from) (operator_at zones.now border.now.to) operator
        (rent_at prices.now border.now flow) }
    ensures small { unsigned_abs result ≤ 2 * MOST_WORTH }
{
    let first = operator_of(zones, border.from) == operator;
    let second = operator_of(zones, border.to) == operator;
    share(first, second, rent_of(border, flow, prices))
}

/// An operator's part of the rents of all borders.
fn operator_rent(
    zones: &ZoneBook,
    market: &Market,
    activation: &Activation,
    prices: &[Cents],
    operator: usize,
) -> i128
    requires { Settles zones.now market.now activation.now prices.now }
    ensures value { result ≡ rent_of_operator zones.now market.now activation.now prices.now operator }
    ensures small { unsigned_abs result ≤ MOST_BORDERS * (2 * MOST_WORTH) }
{
    let flow = activation.flow.as_slice();
    let mut total = 0;
    for (i, border) in market.borders.as_slice().iter().enumerate() {
        total += share_of_border(zones, border, flow[i], prices, operator);
    }
    total
}

/// What a flow brings into a zone.
fn carried_in(zone: u32, border: &Border, flow: i64) -> i64
    requires border { IsValidBorder MOST_ZONES border.now }
    requires flow { IsWithinLimits border.now flow }
    ensures value { result ≡ carried_into zone border.now flow }
    ensures small { unsigned_abs result ≤ MOST_CARRIED }
{
    let inward = if border.to == zone { flow } else { 0 };
    let outward = if border.from == zone { flow } else { 0 };
    inward - outward
}

/// The flows that enter a zone less those that leave it.
fn net_import(market: &Market, activation: &Activation, zone: u32) -> i64
    requires market { IsValid market.now }
    requires flows { HasFlows market.now activation.now }
    ensures value { result ≡ net_import_of market.now activation.now zone }
    ensures small { unsigned_abs result ≤ MOST_BORDERS * MOST_CARRIED }
{
    let flow = activation.flow.as_slice();
    let mut total = 0;
    for (i, border) in market.borders.as_slice().iter().enumerate() {
        total += carried_in(zone, border, flow[i]);
    }
    total
}

/// What the energy that a zone takes in is worth.
fn import_worth(market: &Market, activation: &Activation, prices: &[Cents], zone: u32) -> i128
    requires market { IsValid market.now }
    requires flows { HasFlows market.now activation.now }
    requires zone { zone < length prices.now }
    requires prices { All IsCapped prices.now }
    ensures value { result ≡ price_at prices.now zone *ℤ net_import_of market.now activation.now zone }
    ensures small { unsigned_abs result ≤ unsigned_abs CAP * MOST_IMPORT }
{
    worth(
        Cents(price_of(prices, zone)),
        net_import(market, activation, zone),
    )
}

/// What an operator pays for the energy that a zone takes in: nothing where the zone is another's.
fn payment_for(
    zones: &ZoneBook,
    market: &Market,
    activation: &Activation,
    prices: &[Cents],
    operator: usize,
    zone: u32,
) -> i128
    requires settles { Settles zones.now market.now activation.now prices.now }
    requires zone { zone < market.now.zones }
    ensures value { result ≡ payment_at zones.now market.now activation.now prices.now operator zone }
    ensures small { unsigned_abs result ≤ unsigned_abs CAP * MOST_IMPORT }
{
    if operator_of(zones, zone) == operator {
        import_worth(market, activation, prices, zone)
    } else {
        0
    }
}

/// What an operator pays for the energy that its zones take in.
fn operator_payment(
    zones: &ZoneBook,
    market: &Market,
    activation: &Activation,
    prices: &[Cents],
    operator: usize,
) -> i128
    requires { Settles zones.now market.now activation.now prices.now }
    ensures value { result ≡ payment_of zones.now market.now activation.now prices.now operator }
    ensures small { unsigned_abs result ≤ MOST_ZONES * (unsigned_abs CAP * MOST_IMPORT) }
{
    let mut total = 0;
    for zone in 0..market.zones {
        total += payment_for(zones, market, activation, prices, operator, zone);
    }
    total
}

/// Writes each operator's line.
pub(crate) fn write_lines(
    lines: &mut [OperatorLine],
    zones: &ZoneBook,
    market: &Market,
    activation: &Activation,
    prices: &[Cents],
)
    requires lengths { length lines.old ≡ length zones.now.operators }
    requires settles { Settles zones.now market.now activation.now prices.now }
    ensures value { lines.new ≡ operator_lines zones.now market.now activation.now prices.now }
    ensures small { All IsSmallLine lines.new }
{
    for operator in 0..lines.len() {
        lines[operator] = OperatorLine {
            payment: Quarters(operator_payment(zones, market, activation, prices, operator)),
            rent: Quarters(operator_rent(zones, market, activation, prices, operator)),
        };
    }
}
