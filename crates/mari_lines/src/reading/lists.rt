//! Lists of numbers in a line.

ghost use Rattle.std.specs.Prelude.{◌≡◌, ◌≤◌, [], map, MatchResult};
ghost use Rattle.mari_lines.specs.declared.fault.FormFault.TheVariants as form_fault;
ghost use Rattle.std.specs.Fmt.{decimal, signed_decimal};
ghost use Rattle.mari_market.specs.Price.{IsCapped};
ghost use Rattle.mari_units.specs.Numbers.{Within};
ghost use Rattle.mari_lines.specs.Ranges.{Listed, IsZone};
ghost use Rattle.mari_lines.specs.Spelling.{price_text, zone_text};
ghost use Rattle.mari_lines.specs.Reading.{Reads};

use super::number::{read_flow, read_zone_number};
use super::words::Words;
use crate::fault::FormFault;
use mari_market::MOST_ORDERS;
use mari_units::{Cents, Items, MOST_BORDERS, MOST_FLOW, MOST_MW, MOST_ZONES};
use std::alloc::Global;

/// An empty list with room for about as many items as there are words left, and for no more than `most`.
fn list_for<T>(alloc: Global, words: &Words<'_>, most: usize) -> Result<Vec<T>, FormFault>
    ensures { MatchResult result (λ list. list.items ≡ []) (λ fault. fault ≡ form_fault.Memory) }
{
    match Vec::with_capacity(alloc, words.about().min(most)) {
        Ok(list) => Ok(list),
        Err(_) => Err(FormFault::Memory),
    }
}

/// One to `MOST_ZONES` prices, to the end of the line.
pub fn read_prices(alloc: Global, words: &mut Words<'_>) -> Result<Items<Cents>, FormFault>
    ensures { Reads (Listed 1 MOST_ZONES IsCapped) (map price_text) words.old result }
{
    let mut left = words.take_all();
    let mut prices = list_for(alloc, &left, MOST_ZONES)?;
    while let Some(price) = left.next_price() {
        if prices.len() >= MOST_ZONES {
            return Err(FormFault::Formless);
        }
        let price = price?;
        prices.push(price)?;
    }
    if prices.is_empty() {
        return Err(FormFault::Formless);
    }
    Ok(Items::of(prices))
}

/// At most `MOST_BORDERS` flows, to the end of the line.
pub fn read_flows(alloc: Global, words: &mut Words<'_>) -> Result<Items<i64>, FormFault>
    ensures { Reads (Listed 0 MOST_BORDERS (λ flow. Within MOST_FLOW flow)) (map signed_decimal) words.old result }
{
    let mut left = words.take_all();
    let mut flows = list_for(alloc, &left, MOST_BORDERS)?;
    while let Some(word) = left.next_word() {
        if flows.len() >= MOST_BORDERS {
            return Err(FormFault::Formless);
        }
        let flow = read_flow(word)?;
        flows.push(flow)?;
    }
    Ok(Items::of(flows))
}

/// At most `MOST_ORDERS` quantities, to the end of the line.
pub fn read_mws(alloc: Global, words: &mut Words<'_>) -> Result<Items<u32>, FormFault>
    ensures { Reads (Listed 0 MOST_ORDERS (λ mw. mw ≤ MOST_MW)) (map decimal) words.old result }
{
    let mut left = words.take_all();
    let mut mws = list_for(alloc, &left, MOST_ORDERS)?;
    while let Some(mw) = left.next_number(MOST_MW) {
        if mws.len() >= MOST_ORDERS {
            return Err(FormFault::Formless);
        }
        let mw = mw?;
        mws.push(mw)?;
    }
    Ok(Items::of(mws))
}

/// One to `MOST_ZONES` zones, to the end of the line.
pub fn read_zones(alloc: Global, words: &mut Words<'_>) -> Result<Items<u32>, FormFault>
    ensures { Reads (Listed 1 MOST_ZONES IsZone) (map zone_text) words.old result }
{
    let mut left = words.take_all();
    let mut zones = list_for(alloc, &left, MOST_ZONES)?;
    while let Some(word) = left.next_word() {
        if zones.len() >= MOST_ZONES {
            return Err(FormFault::Formless);
        }
        let zone = read_zone_number(word)?;
        zones.push(zone)?;
    }
    if zones.is_empty() {
        return Err(FormFault::Formless);
    }
    Ok(Items::of(zones))
}
