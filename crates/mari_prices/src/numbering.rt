//! Price areas.

ghost use Rattle.std.specs.Prelude.{◌≡◌, ◌≤◌, ◌<◌, length, IfOk, unsigned_abs};
ghost use Rattle.mari_market.specs.Area.{AreAreas};
ghost use Rattle.mari_market.specs.Market.{IsValid};
ghost use Rattle.mari_market.specs.Optimal.{IsFeasible};
ghost use Rattle.mari_prices.specs.Firsts.{AreFirsts, AreNumberedByFirsts, ArePlaces, first_at, first_in};

use crate::spread::{SettledZone, spread};
use mari_market::{Activation, Along, Market};
use mari_units::{MOST_ZONES, Memory};
use std::alloc::{AllocError, Global};

/// Each zone's number, with the sign turned.
fn places(alloc: Global, zones: u32) -> Result<Vec<i64>, AllocError>
    ensures one_each { IfOk result (λ v. length v.items ≡ zones) }
    ensures places { IfOk result (λ v. ArePlaces v.items) }
{
    let mut places = Vec::new(alloc);
    for zone in 0..zones {
        places.push(-i64::from(zone))?;
    }
    Ok(places)
}

/// The first zone of a zone's area.
fn first_of(entry: &Option<SettledZone>) -> usize
    ensures { result ≡ first_in entry.now }
{
    match entry {
        Some(zone) => zone.value.unsigned_abs() as usize,
        None => 0,
    }
}

/// Numbers areas from 1 by their first zones.
fn number(alloc: Global, settled: &[Option<SettledZone>]) -> Result<Vec<u32>, AllocError>
    requires few { length settled.now ≤ MOST_ZONES }
    requires firsts { AreFirsts (length settled.now) (first_at settled.now) }
    ensures { IfOk result (λ v. AreNumberedByFirsts settled.now v.items) }
{
    let mut areas = Vec::new(alloc);
    let mut count = 0;
    for (zone, entry) in settled.iter().enumerate() {
        let first = first_of(entry);
        if first == zone {
            count += 1;
            areas.push(count)?;
        } else {
            let area = areas[first];
            areas.push(area)?;
        }
    }
    Ok(areas)
}

/// Each zone's price area: zones are in one area where uncongested borders join them, directly or through others.
///
/// Areas are numbered from 1 by their first zone. There is one number for each zone. Time is that of zones times
/// borders.
pub fn areas(alloc: Global, market: &Market, activation: &Activation) -> Result<Vec<u32>, Memory>
    requires valid { IsValid market.now }
    requires feasible { IsFeasible market.now activation.now }
    ensures { IfOk result (λ v. AreAreas market.now activation.now v.items) }
{
    let (borders, flow) = (market.borders.as_slice(), activation.flow.as_slice());
    let places = places(alloc, market.zones)?;
    let settled = spread(alloc, &places, borders, flow, Along::Joined)?;
    Ok(number(alloc, &settled)?)
}
