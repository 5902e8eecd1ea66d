//! The numbers of price areas.

ghost use Rattle.std.specs.Prelude.{◌≡◌, ◌<◌, ◌≤◌, ℕ, length, IfOk, IsTrue, ◌↔◌};
ghost use Rattle.std.specs.List.{range_with_len};
ghost use Rattle.mari_market.specs.Area.{AreAreas, HasBefore, IsNumbered};
ghost use Rattle.mari_market.specs.Market.{IsValid};
ghost use Rattle.mari_market.specs.Optimal.{IsFeasible};
ghost use Rattle.mari_check.specs.Areas.{AgreeAt, AreAlike, AreNumbered};

use crate::spread::spread;
use mari_market::{Activation, Along, Market};
use mari_units::{MOST_ZONES, Memory};
use std::alloc::Global;

/// Each zone's place, which is its own label.
fn places(alloc: Global, zones: u32) -> Result<Vec<u64>, Memory>
    ensures { IfOk result (λ v. v.items ≡ range_with_len 0 zones) }
{
    let mut places = Vec::new(alloc);
    for zone in 0..zones {
        places.push(u64::from(zone))?;
    }
    Ok(places)
}

/// Whether two zones have one area exactly where they have one label.
fn is_alike(areas: &[u32], labels: &[u64], zone: usize, other: usize) -> bool
    requires lengths { length labels.now ≡ length areas.now }
    requires zone { zone < length areas.now }
    requires other { other < length areas.now }
    ensures { IsTrue result ↔ AreAlike areas.now labels.now zone other }
{
    if areas[zone] == areas[other] {
        labels[zone] == labels[other]
    } else {
        labels[zone] != labels[other]
    }
}

/// Whether this zone has one area with exactly the zones that have its label.
fn agrees_at(areas: &[u32], labels: &[u64], zone: usize) -> bool
    requires lengths { length labels.now ≡ length areas.now }
    requires zone { zone < length areas.now }
    ensures { IsTrue result ↔ AgreeAt areas.now labels.now zone }
{
    for other in 0..areas.len() {
        if !is_alike(areas, labels, zone, other) {
            return false;
        }
    }
    true
}

/// Whether all zones have one area exactly where they have one label.
fn agree(areas: &[u32], labels: &[u64]) -> bool
    requires lengths { length labels.now ≡ length areas.now }
    ensures { IsTrue result ↔ ((zone : ℕ) → zone < length areas.now → AgreeAt areas.now labels.now zone) }
{
    for zone in 0..areas.len() {
        if !agrees_at(areas, labels, zone) {
            return false;
        }
    }
    true
}

/// Whether a number is that of a zone no later than this one.
fn has_before(areas: &[u32], zone: usize, number: u32) -> bool
    requires zone { zone < length areas.now }
    ensures { IsTrue result ↔ HasBefore areas.now zone number }
{
    for other in 0..zone + 1 {
        if areas[other] == number {
            return true;
        }
    }
    false
}

/// Whether a zone's number is at least 1, and each number up to it is that of a zone no later.
fn is_numbered(areas: &[u32], zone: usize) -> bool
    requires few { length areas.now ≤ MOST_ZONES }
    requires zone { zone < length areas.now }
    ensures { IsTrue result ↔ IsNumbered areas.now zone }
{
    if areas[zone] == 0 {
        return false;
    }
    for below in 0..areas[zone] {
        if !has_before(areas, zone, below + 1) {
            return false;
        }
    }
    true
}

/// Whether the areas are numbered from 1 by their first zones.
fn are_numbered(areas: &[u32]) -> bool
    requires few { length areas.now ≤ MOST_ZONES }
    ensures { IsTrue result ↔ AreNumbered areas.now }
{
    for zone in 0..areas.len() {
        if !is_numbered(areas, zone) {
            return false;
        }
    }
    true
}

/// Whether these are the numbers of all zones' areas.
///
/// Labels spread along uncongested borders, so that the zones of one area come to one label.
pub(crate) fn are_areas(
    alloc: Global,
    market: &Market,
    activation: &Activation,
    areas: &[u32],
) -> Result<bool, Memory>
    requires valid { IsValid market.now }
    requires feasible { IsFeasible market.now activation.now }
    ensures { IfOk result (λ is. IsTrue is ↔ AreAreas market.now activation.now areas.now) }
{
    if areas.len() != market.zones as usize {
        return Ok(false);
    }
    let (borders, flow) = (market.borders.as_slice(), activation.flow.as_slice());
    let places = places(alloc, market.zones)?;
    let labels = spread(places, borders, flow, Along::Joined);
    if !agree(areas, &labels) {
        return Ok(false);
    }
    Ok(are_numbered(areas))
}
