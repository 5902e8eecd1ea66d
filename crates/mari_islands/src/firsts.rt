//! The first zone of each zone's island.
//!
//! Each zone begins as an island of its own, and whatever binds two zones unites theirs. The zone of one of its orders
//! stands for a gate, and the zone of its first gate for a group, so that each order and each gate is looked at once.

ghost use Rattle.std.specs.Prelude.{◌≡◌, ◌↔◌, ◌<◌, ℕ, IfOk, IsTrue, Some, length, max, min, slice_index};
ghost use Rattle.std.specs.BTreeMap.{get};
ghost use Rattle.std.specs.List.{All};
ghost use Rattle.std.specs.Ordering.{nat_cmp};
ghost use Rattle.mari_market.specs.declared.market.Border.{Border as BorderRecord};
ghost use Rattle.mari_market.specs.Market.{IsValid};
ghost use Rattle.mari_islands.specs.Islands.{AreFirstZones, AreJoined, IsUsable};
ghost use Rattle.mari_islands.specs.Uniting.{AreHomes, AreMates, AreSound, AreUnited, KeepsMates, StayUnited, UnitesGate, UnitesOwn, lowered};

use mari_market::{Border, Market};
use std::alloc::{AllocError, Global};
use std::collections::BTreeMap;

/// Whether something may flow over a border.
fn is_usable(border: &Border) -> bool
    ensures { IsTrue result ↔ IsUsable border.now }
{
    border.limit > 0 || border.back > 0
}

/// Makes one island of those of two zones.
fn unite(firsts: &mut [u32], zone: u32, other: u32)
    requires zone { zone < length firsts.old }
    requires other { other < length firsts.old }
    ensures { (z : ℕ) → z < length firsts.old → slice_index firsts.new z
        ≡ lowered (min (slice_index firsts.old zone) (slice_index firsts.old other)) (max (slice_index firsts.old zone) (slice_index firsts.old other))
        (slice_index firsts.old z) }
{
    let (one, two) = (firsts[zone as usize], firsts[other as usize]);
    if one == two {
        return;
    }
    let (low, high) = (one.min(two), one.max(two));
    for first in firsts.iter_mut() {
        if *first == high {
            *first = low;
        }
    }
}

/// Unites two zones that something binds.
fn unite_joined(market: &Market, firsts: &mut [u32], zone: u32, other: u32)
    requires sound { AreSound market.now firsts.old }
    requires zone { zone < market.now.zones }
    requires other { other < market.now.zones }
    requires joined { AreJoined market.now zone other }
    ensures sound { AreSound market.now firsts.new }
    ensures united { AreUnited firsts.new zone other }
    ensures stay { StayUnited firsts.old firsts.new }
{
    unite(firsts, zone, other);
}

/// Unites the zones of each border over which something may flow.
fn unite_by_borders(market: &Market, firsts: &mut [u32])
    requires valid { IsValid market.now }
    requires sound { AreSound market.now firsts.old }
    ensures sound { AreSound market.now firsts.new }
    ensures united { All (λ (b : BorderRecord). IsUsable b → AreUnited firsts.new b.from b.to) market.now.borders }
{
    for border in market.borders.as_slice() {
        if is_usable(border) {
            unite_joined(market, firsts, border.from, border.to);
        }
    }
}

/// Writes for each gate the zone of one of its orders.
fn place_homes(market: &Market, homes: &mut [u32])
    requires valid { IsValid market.now }
    requires long { length homes.old ≡ length market.now.gates }
    ensures { AreHomes market.now homes.new }
{
    for order in market.orders.as_slice() {
        if let Some(gate) = order.gate {
            homes[gate as usize] = order.zone;
        }
    }
}

/// For each gate the zone of one of its orders.
pub(crate) fn homes_of(alloc: Global, market: &Market) -> Result<Vec<u32>, AllocError>
    requires { IsValid market.now }
    ensures { IfOk result (λ homes. AreHomes market.now homes.items) }
{
    let mut homes = vec![in alloc; 0; market.gates.as_slice().len()]?;
    place_homes(market, &mut homes);
    Ok(homes)
}

/// The zone that stands for a group: the one that is kept for it, or else this one, which then is.
fn zone_for(groups: &mut BTreeMap<u32, u32>, group: u32, home: u32) -> Result<u32, AllocError>
    ensures { IfOk result (KeepsMates (get nat_cmp groups.old) (get nat_cmp groups.new) (Some group) home) }
{
    if let Some(zone) = groups.get(&group) {
        return Ok(*zone);
    }
    groups.insert(group, home)?;
    Ok(home)
}

/// The zone that stands for the group of a gate, or for the gate where it is of no group.
fn mate_of(
    groups: &mut BTreeMap<u32, u32>,
    group: Option<u32>,
    home: u32,
) -> Result<u32, AllocError>
    ensures { IfOk result (KeepsMates (get nat_cmp groups.old) (get nat_cmp groups.new) group home) }
{
    match group {
        Some(group) => zone_for(groups, group, home),
        None => Ok(home),
    }
}

/// For each gate the zone that stands for its group, or for the gate where it is of no group.
fn mates_of(alloc: Global, market: &Market, homes: &[u32]) -> Result<Vec<u32>, AllocError>
    requires { AreHomes market.now homes.now }
    ensures { IfOk result (λ mates. AreMates market.now mates.items) }
{
    let gates = market.gates.as_slice();
    let mut groups = BTreeMap::new(alloc);
    let mut mates = Vec::new(alloc);
    for gate in 0..homes.len() {
        let mate = mate_of(&mut groups, gates[gate].group, homes[gate])?;
        mates.push(mate)?;
    }
    Ok(mates)
}

/// Unites the zone of each gated order with the one that stands for its gate.
fn unite_by_orders(market: &Market, firsts: &mut [u32], homes: &[u32])
    requires valid { IsValid market.now }
    requires sound { AreSound market.now firsts.old }
    requires homes { AreHomes market.now homes.now }
    ensures sound { AreSound market.now firsts.new }
    ensures united { All (UnitesOwn homes.now firsts.new) market.now.orders }
    ensures stay { StayUnited firsts.old firsts.new }
{
    for order in market.orders.as_slice() {
        if let Some(gate) = order.gate {
            unite_joined(market, firsts, homes[gate as usize], order.zone);
        }
    }
}

/// Unites the zone that stands for a gate with those that stand for its group and for its parent.
fn unite_gate(market: &Market, firsts: &mut [u32], gate: usize, homes: &[u32], mates: &[u32])
    requires valid { IsValid market.now }
    requires sound { AreSound market.now firsts.old }
    requires there { gate < length market.now.gates }
    requires homes { AreHomes market.now homes.now }
    requires mates { AreMates market.now mates.now }
    ensures sound { AreSound market.now firsts.new }
    ensures united { UnitesGate market.now.gates homes.now mates.now firsts.new gate }
    ensures stay { StayUnited firsts.old firsts.new }
{
    let home = homes[gate];
    unite_joined(market, firsts, home, mates[gate]);
    if let Some(parent) = market.gates.as_slice()[gate].parent {
        unite_joined(market, firsts, home, homes[parent as usize]);
    }
}

/// Unites the zones that stand for gates that are bound.
fn unite_by_gates(market: &Market, firsts: &mut [u32], homes: &[u32], mates: &[u32])
    requires valid { IsValid market.now }
    requires sound { AreSound market.now firsts.old }
    requires homes { AreHomes market.now homes.now }
    requires mates { AreMates market.now mates.now }
    ensures sound { AreSound market.now firsts.new }
    ensures united { (g : ℕ) → g < length market.now.gates → UnitesGate market.now.gates homes.now mates.now firsts.new g }
    ensures stay { StayUnited firsts.old firsts.new }
{
    for gate in 0..homes.len() {
        unite_gate(market, firsts, gate, homes, mates);
    }
}

/// Unites all zones that something binds.
fn unite_all(market: &Market, firsts: &mut [u32], homes: &[u32], mates: &[u32])
    requires valid { IsValid market.now }
    requires sound { AreSound market.now firsts.old }
    requires homes { AreHomes market.now homes.now }
    requires mates { AreMates market.now mates.now }
    ensures { AreFirstZones market.now firsts.new }
{
    unite_by_borders(market, firsts);
    unite_by_orders(market, firsts, homes);
    unite_by_gates(market, firsts, homes, mates);
}

/// Each zone's number: as if each were an island.
fn own_zones(alloc: Global, market: &Market) -> Result<Vec<u32>, AllocError>
    ensures { IfOk result (λ firsts. AreSound market.now firsts.items) }
{
    let mut firsts = Vec::new(alloc);
    for zone in 0..market.zones {
        firsts.push(zone)?;
    }
    Ok(firsts)
}

/// For each zone the first zone of its island. For each gate there is the zone of one of its orders.
pub(crate) fn firsts_of(
    alloc: Global,
    market: &Market,
    homes: &[u32],
) -> Result<Vec<u32>, AllocError>
    requires valid { IsValid market.now }
    requires homes { AreHomes market.now homes.now }
    ensures { IfOk result (λ firsts. AreFirstZones market.now firsts.items) }
{
    let mates = mates_of(alloc, market, homes)?;
    let mut firsts = own_zones(alloc, market)?;
    unite_all(market, &mut firsts, homes, &mates);
    Ok(firsts)
}
