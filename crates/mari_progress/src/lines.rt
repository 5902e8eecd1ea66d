//! The lines of a block's market: zones, borders, bids and demands, each by its name.

ghost use Rattle.std.specs.Prelude.{◌≡◌, ◌≤◌, ◌<◌, IfOk, length, map, take, drop};
ghost use Rattle.std.specs.List.{All};
ghost use Rattle.mari_units.specs.Names.{IsName};
ghost use Rattle.mari_zones.specs.declared.borders.BorderEnds.{BorderEnds as Ends};
ghost use Rattle.mari_lines.specs.declared.line.BidLine.{BidLine as BidLineOf};
ghost use Rattle.mari_lines.specs.declared.line.BorderLine.{BorderLine as BorderLineOf};
ghost use Rattle.mari_lines.specs.declared.line.ZoneLine.{ZoneLine as ZoneLineOf};
ghost use Rattle.mari_rows.specs.Names.{name_at};

use mari_publish::{BidLine, BorderLine, ZoneLine};
use mari_rows::NameIndex;
use mari_units::{Cents, MOST_ZONES, Memory, Name, Quarters, name_of};
use mari_zones::BorderEnds;
use std::alloc::Global;

/// A copy of the name at a place.
pub fn copied_name(names: &NameIndex, place: u32) -> Name
    requires names { All IsName names.now }
    requires there { place < length names.now }
    ensures { result ≡ name_at names.now place }
{
    match names.name_at(place) {
        Some(name) => name_of(name),
        None => unreachable!(),
    }
}

/// A line for each zone.
pub fn zone_lines(
    alloc: Global,
    zones: &NameIndex,
    published: &[Cents],
    least: &[Cents],
    greatest: &[Cents],
    areas: &[u32],
) -> Result<Vec<ZoneLine>, Memory>
    // The zones by their names.
    requires few { length zones.now ≤ MOST_ZONES }
    requires names { All IsName zones.now }

    // Three prices and an area for each.
    requires published { length published.now ≡ length zones.now }
    requires least { length least.now ≡ length zones.now }
    requires greatest { length greatest.now ≡ length zones.now }
    requires areas { length areas.now ≡ length zones.now }

    // The lines stand in the zones' order.
    ensures names { IfOk result (λ lines. map (λ (l : ZoneLineOf). l.name) lines.items ≡ zones.now) }
    ensures prices { IfOk result (λ lines. map (λ (l : ZoneLineOf). l.price) lines.items ≡ published.now) }
    ensures least { IfOk result (λ lines. map (λ (l : ZoneLineOf). l.least) lines.items ≡ least.now) }
    ensures greatest { IfOk result (λ lines. map (λ (l : ZoneLineOf). l.greatest) lines.items ≡ greatest.now) }
    ensures areas { IfOk result (λ lines. map (λ (l : ZoneLineOf). l.area) lines.items ≡ areas.now) }
{
    let mut lines = Vec::with_capacity(alloc, areas.len())?;
    for (zone, area) in areas.iter().enumerate() {
        lines.push(ZoneLine {
            name: copied_name(zones, zone as u32),
            price: published[zone],
            least: least[zone],
            greatest: greatest[zone],
            area: *area,
        })?;
    }
    Ok(lines)
}

/// A line for each border.
pub fn border_lines(
    alloc: Global,
    zones: &NameIndex,
    borders: &[BorderEnds],
    flow: &[i64],
    rents: &[Quarters],
) -> Result<Vec<BorderLine>, Memory>
    // The borders, between zones with names.
    requires names { All IsName zones.now }
    requires from { All (λ (b : Ends). b.from < length zones.now) borders.now }
    requires to { All (λ (b : Ends). b.to < length zones.now) borders.now }

    // A flow and a rent for each.
    requires flow { length flow.now ≡ length borders.now }
    requires rents { length rents.now ≡ length borders.now }

    // The lines stand in the borders' order.
    ensures from { IfOk result (λ lines. map (λ (l : BorderLineOf). l.from) lines.items ≡ map (λ (b : Ends). name_at zones.now b.from) borders.now) }
    ensures to { IfOk result (λ lines. map (λ (l : BorderLineOf). l.to) lines.items ≡ map (λ (b : Ends). name_at zones.now b.to) borders.now) }
    ensures flow { IfOk result (λ lines. map (λ (l : BorderLineOf). l.flow) lines.items ≡ flow.now) }
    ensures rents { IfOk result (λ lines. map (λ (l : BorderLineOf). l.rent) lines.items ≡ rents.now) }
{
    let mut lines = Vec::with_capacity(alloc, borders.len())?;
    for (border, ends) in borders.iter().enumerate() {
        lines.push(BorderLine {
            from: copied_name(zones, ends.from),
            to: copied_name(zones, ends.to),
            flow: flow[border],
            rent: rents[border],
        })?;
    }
    Ok(lines)
}

/// A line for each of these bids, by their numbers.
pub fn bid_lines(
    alloc: Global,
    ids: &NameIndex,
    numbers: &[u32],
    mw: &[u32],
) -> Result<Vec<BidLine>, Memory>
    requires names { All IsName ids.now }
    requires there { All (λ number. number < length ids.now) numbers.now }
    requires mw { length numbers.now ≤ length mw.now }
    ensures ids { IfOk result (λ lines. map (λ (l : BidLineOf). l.id) lines.items ≡ map (name_at ids.now) numbers.now) }
    ensures mw { IfOk result (λ lines. map (λ (l : BidLineOf). l.mw) lines.items ≡ take (length numbers.now) mw.now) }
{
    let mut lines = Vec::with_capacity(alloc, numbers.len())?;
    for (order, number) in numbers.iter().enumerate() {
        lines.push(BidLine {
            id: copied_name(ids, *number),
            mw: mw[order],
        })?;
    }
    Ok(lines)
}

/// How many MW each order runs after the first `bids` of them.
pub fn demand_mws(alloc: Global, mw: &[u32], bids: usize) -> Result<Vec<u32>, Memory>
    ensures { IfOk result (λ rest. rest.items ≡ drop bids mw.now) }
{
    Ok(mw.iter().skip(bids).copied().collect(alloc)?)
}
