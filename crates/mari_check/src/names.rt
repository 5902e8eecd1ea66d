//! The names of a block's lines.

ghost use Rattle.std.specs.Prelude.{◌≡◌, IsTrue, ◌↔◌};
ghost use Rattle.std.specs.List.{AllZip};
ghost use Rattle.mari_progress.specs.Reported.{NamesMarket};
ghost use Rattle.mari_check.specs.Lines.{NamesBid, NamesEnds, NamesZone};
ghost use Rattle.mari_rows.specs.Names.{name_at};

use mari_publish::{BidLine, BorderLine, FullBlock, ZoneLine};
use mari_remain::{Books, RunMarket};
use mari_rows::NameIndex;
use mari_units::Name;
use mari_zones::BorderEnds;

/// Whether a name is the one at a place.
pub(crate) fn is_named(name: &Name, names: &NameIndex, place: u32) -> bool
    ensures { IsTrue result ↔ (name.now ≡ name_at names.now place) }
{
    let bytes = name.bytes();
    match names.name_at(place) {
        Some(own) => bytes == own,
        None => false,
    }
}

/// Whether the lines have the names of the zones, one line each.
fn zones_named(lines: &[ZoneLine], names: &NameIndex) -> bool
    ensures { IsTrue result ↔ AllZip NamesZone lines.now names.now }
{
    if lines.len() != names.len() as usize {
        return false;
    }
    for (zone, line) in lines.iter().enumerate() {
        if !is_named(&line.name, names, zone as u32) {
            return false;
        }
    }
    true
}

/// Whether a border's line has the names of its zones.
fn are_ends_named(line: &BorderLine, names: &NameIndex, ends: BorderEnds) -> bool
    ensures { IsTrue result ↔ NamesEnds names.now line.now ends }
{
    if !is_named(&line.from, names, ends.from) {
        return false;
    }
    is_named(&line.to, names, ends.to)
}

/// Whether the lines have the names of the borders' zones, one line each.
fn borders_named(lines: &[BorderLine], names: &NameIndex, borders: &[BorderEnds]) -> bool
    ensures { IsTrue result ↔ AllZip (NamesEnds names.now) lines.now borders.now }
{
    if lines.len() != borders.len() {
        return false;
    }
    for (border, line) in lines.iter().enumerate() {
        if !are_ends_named(line, names, borders[border]) {
            return false;
        }
    }
    true
}

/// Whether the lines have the ids of these bids, one line each. It is not inlined, so that its loop, which every bid
/// goes through, has all registers to itself.
#[inline(never)]
fn bids_named(lines: &[BidLine], ids: &NameIndex, numbers: &[u32]) -> bool
    ensures { IsTrue result ↔ AllZip (NamesBid ids.now) lines.now numbers.now }
{
    if lines.len() != numbers.len() {
        return false;
    }
    for (bid, line) in lines.iter().enumerate() {
        if !is_named(&line.id, ids, numbers[bid]) {
            return false;
        }
    }
    true
}

/// Whether the block's lines name the zones, the borders and the bids of its run's market, and there is a line for
/// each demand.
pub(crate) fn names_market(books: &Books, made: &RunMarket, block: &FullBlock) -> bool
    ensures { IsTrue result ↔ NamesMarket books.now made.now block.now }
{
    let zones = &books.zones.zones;
    let borders = books.borders.borders.as_slice();
    if !zones_named(block.zones.as_slice(), zones) {
        return false;
    }
    if !borders_named(block.borders.as_slice(), zones, borders) {
        return false;
    }
    if !bids_named(block.bids.as_slice(), &books.bids.ids, made.bids.as_slice()) {
        return false;
    }
    block.demands.as_slice().len() == made.demands as usize
}
