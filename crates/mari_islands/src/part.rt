//! The part of a market in the zones of one island, as a market of its own.

ghost use Rattle.std.specs.Prelude.{◌≡◌, ◌<◌, ◌≤◌, IfOk, IfSome, filter, length, map};
ghost use Rattle.std.specs.List.{All, range_with_len};
ghost use Rattle.std.specs.Option.{option_and_then};
ghost use Rattle.mari_market.specs.Market.{IsBetween, IsValid};
ghost use Rattle.mari_islands.specs.Islands.{AreFirstZones, has_first};
ghost use Rattle.mari_islands.specs.Lists.{place_in, place_of as place_among, places_from};
ghost use Rattle.mari_islands.specs.Part.{border_among, gate_among as gate_as, gates_in, is_border_in, is_order_in, order_among, part_of};
ghost use Rattle.mari_islands.specs.Uniting.{AreHomes};

use crate::islands::Island;
use mari_market::{Border, GateInfo, MOST_ORDERS, Market, Order};
use mari_units::{Items, MOST_BORDERS, MOST_GATES, MOST_ZONES, Memory};
use std::alloc::{AllocError, Global};

/// The index of a number in a list, if it is there.
fn index_of(numbers: &[u32], number: u32) -> Option<usize>
    ensures index { result ≡ place_in numbers.now number }
    ensures within { IfSome result (λ index. index < length numbers.now) }
{
    numbers.iter().position(|other| *other == number)
}

/// The place of a number in a list, if it is there.
fn place_in(numbers: &[u32], number: u32) -> Option<u32>
    requires { length numbers.now ≤ MOST_GATES }
    ensures { result ≡ place_in numbers.now number }
{
    match index_of(numbers, number) {
        Some(index) => Some(index as u32),
        None => None,
    }
}

/// The place of a zone among these.
fn zone_among(zones: &[u32], zone: u32) -> u32
    requires { length zones.now ≤ MOST_GATES }
    ensures { result ≡ place_among zones.now zone }
{
    place_in(zones, zone).unwrap_or(0)
}

/// The place of a gate, if there is one, among these.
fn gate_place(gates: &[u32], gate: Option<u32>) -> Option<u32>
    requires { length gates.now ≤ MOST_GATES }
    ensures { result ≡ option_and_then (place_in gates.now) gate }
{
    match gate {
        Some(gate) => place_in(gates, gate),
        None => None,
    }
}

/// Whether a zone's island has this first zone.
pub(crate) fn is_inside(firsts: &[u32], first: u32, zone: u32) -> bool
    requires { zone < length firsts.now }
    ensures { result ≡ has_first firsts.now first zone }
{
    firsts[zone as usize] == first
}

/// Whether both ends of a border are in the island.
fn is_border_inside(firsts: &[u32], first: u32, border: &Border) -> bool
    requires { IsBetween (length firsts.now) border.now }
    ensures { result ≡ is_border_in (has_first firsts.now first) border.now }
{
    is_inside(firsts, first, border.from) && is_inside(firsts, first, border.to)
}

/// The zones of the island.
fn zones_inside(alloc: Global, firsts: &[u32], first: u32) -> Result<Vec<u32>, AllocError>
    requires { length firsts.now ≤ MOST_ZONES }
    ensures { IfOk result (λ zones. zones.items ≡ filter (has_first firsts.now first) (range_with_len 0 (length firsts.now))) }
{
    let mut zones = Vec::new(alloc);
    for zone in 0..firsts.len() as u32 {
        if is_inside(firsts, first, zone) {
            zones.push(zone)?;
        }
    }
    Ok(zones)
}

/// The numbers of the borders of the island.
fn border_numbers(
    alloc: Global,
    firsts: &[u32],
    first: u32,
    borders: &[Border],
) -> Result<Vec<u32>, AllocError>
    requires few { length borders.now ≤ MOST_BORDERS }
    requires ends { All (IsBetween (length firsts.now)) borders.now }
    ensures { IfOk result (λ numbers. numbers.items ≡ places_from (is_border_in (has_first firsts.now first)) 0 borders.now) }
{
    let mut numbers = Vec::new(alloc);
    for (number, border) in borders.iter().enumerate() {
        if is_border_inside(firsts, first, border) {
            numbers.push(number as u32)?;
        }
    }
    Ok(numbers)
}

/// The borders of the island, with the places of their zones among these as numbers.
fn borders_among(
    alloc: Global,
    firsts: &[u32],
    first: u32,
    borders: &[Border],
    zones: &[u32],
) -> Result<Vec<Border>, AllocError>
    requires zones { length zones.now ≤ MOST_GATES }
    requires ends { All (IsBetween (length firsts.now)) borders.now }
    ensures { IfOk result (λ own. own.items ≡ map (border_among zones.now) (filter (is_border_in (has_first firsts.now first)) borders.now)) }
{
    let mut own = Vec::new(alloc);
    for border in borders {
        if is_border_inside(firsts, first, border) {
            own.push(Border {
                from: zone_among(zones, border.from),
                to: zone_among(zones, border.to),
                limit: border.limit,
                back: border.back,
            })?;
        }
    }
    Ok(own)
}

/// The numbers of the orders of the island.
fn order_numbers(
    alloc: Global,
    firsts: &[u32],
    first: u32,
    orders: &[Order],
) -> Result<Vec<u32>, AllocError>
    requires few { length orders.now ≤ MOST_ORDERS }
    requires zones { All (λ (o : Order). o.zone < length firsts.now) orders.now }
    ensures { IfOk result (λ numbers. numbers.items ≡ places_from (is_order_in (has_first firsts.now first)) 0 orders.now) }
{
    let mut numbers = Vec::new(alloc);
    for (number, order) in orders.iter().enumerate() {
        if is_inside(firsts, first, order.zone) {
            numbers.push(number as u32)?;
        }
    }
    Ok(numbers)
}

/// The orders of the island.
fn orders_inside(
    alloc: Global,
    firsts: &[u32],
    first: u32,
    orders: &[Order],
) -> Result<Vec<Order>, AllocError>
    requires { All (λ (o : Order). o.zone < length firsts.now) orders.now }
    ensures { IfOk result (λ own. own.items ≡ filter (is_order_in (has_first firsts.now first)) orders.now) }
{
    let mut own = Vec::new(alloc);
    for order in orders {
        if is_inside(firsts, first, order.zone) {
            own.push(*order)?;
        }
    }
    Ok(own)
}

/// The gates of the island. For each gate there is the zone of one of its orders.
fn gates_inside(
    alloc: Global,
    market: &Market,
    homes: &[u32],
    firsts: &[u32],
    first: u32,
) -> Result<Vec<u32>, AllocError>
    requires valid { IsValid market.now }
    requires homes { AreHomes market.now homes.now }
    requires firsts { AreFirstZones market.now firsts.now }
    ensures { IfOk result (λ gates. gates.items ≡ gates_in market.now (has_first firsts.now first)) }
{
    let mut gates = Vec::new(alloc);
    for gate in 0..market.gates.as_slice().len() as u32 {
        if is_inside(firsts, first, homes[gate as usize]) {
            gates.push(gate)?;
        }
    }
    Ok(gates)
}

/// The orders, with the places of their zones and gates among these as numbers.
fn orders_among(
    alloc: Global,
    orders: &[Order],
    zones: &[u32],
    gates: &[u32],
) -> Result<Vec<Order>, AllocError>
    requires zones { length zones.now ≤ MOST_GATES }
    requires gates { length gates.now ≤ MOST_GATES }
    ensures { IfOk result (λ own. own.items ≡ map (order_among zones.now gates.now) orders.now) }
{
    let mut own = Vec::new(alloc);
    for order in orders {
        own.push(Order {
            zone: zone_among(zones, order.zone),
            gate: gate_place(gates, order.gate),
            ..*order
        })?;
    }
    Ok(own)
}

/// What is known of a gate, with the place of its parent among these as number.
fn gate_among(infos: &[GateInfo], gates: &[u32], gate: u32) -> GateInfo
    requires few { length gates.now ≤ MOST_GATES }
    requires there { gate < length infos.now }
    ensures { result ≡ gate_as infos.now gates.now gate }
{
    let info = infos[gate as usize];
    GateInfo {
        group: info.group,
        parent: gate_place(gates, info.parent),
    }
}

/// What is known of these gates, with the places of their parents among them as numbers.
fn gates_among(
    alloc: Global,
    infos: &[GateInfo],
    gates: &[u32],
) -> Result<Vec<GateInfo>, AllocError>
    requires few { length gates.now ≤ MOST_GATES }
    requires there { All (λ g. g < length infos.now) gates.now }
    ensures { IfOk result (λ own. own.items ≡ map (gate_as infos.now gates.now) gates.now) }
{
    let mut own = Vec::new(alloc);
    for gate in gates {
        own.push(gate_among(infos, gates, *gate))?;
    }
    Ok(own)
}

/// The market of the island of this first zone, by the zones and the gates inside it.
fn market_inside(
    alloc: Global,
    market: &Market,
    firsts: &[u32],
    first: u32,
    zones: &[u32],
    gates: &[u32],
) -> Result<Market, Memory>
    requires valid { IsValid market.now }
    requires firsts { AreFirstZones market.now firsts.now }
    requires zones { zones.now ≡ filter (has_first firsts.now first) (range_with_len 0 (length firsts.now)) }
    requires gates { gates.now ≡ gates_in market.now (has_first firsts.now first) }
    ensures { IfOk result (λ part. part ≡ (part_of market.now (has_first firsts.now first)).market) }
{
    let own = orders_inside(alloc, firsts, first, market.orders.as_slice())?;
    let borders = borders_among(alloc, firsts, first, market.borders.as_slice(), zones)?;
    let orders = orders_among(alloc, &own, zones, gates)?;
    let infos = gates_among(alloc, market.gates.as_slice(), gates)?;
    Ok(Market {
        zones: zones.len() as u32,
        borders: Items::of(borders),
        orders: Items::of(orders),
        gates: Items::of(infos),
        reference: market.reference,
    })
}

/// The island of this first zone. For each gate there is the zone of one of its orders.
pub(crate) fn island_at(
    alloc: Global,
    market: &Market,
    homes: &[u32],
    firsts: &[u32],
    first: u32,
) -> Result<Island, Memory>
    requires valid { IsValid market.now }
    requires homes { AreHomes market.now homes.now }
    requires firsts { AreFirstZones market.now firsts.now }
    ensures { IfOk result (λ island. island ≡ part_of market.now (has_first firsts.now first)) }
{
    let zones = zones_inside(alloc, firsts, first)?;
    let borders = border_numbers(alloc, firsts, first, market.borders.as_slice())?;
    let orders = order_numbers(alloc, firsts, first, market.orders.as_slice())?;
    let gates = gates_inside(alloc, market, homes, firsts, first)?;
    let part = market_inside(alloc, market, firsts, first, &zones, &gates)?;
    Ok(Island {
        zones: Items::of(zones),
        borders: Items::of(borders),
        orders: Items::of(orders),
        gates: Items::of(gates),
        market: part,
    })
}
