//! Searches near the best activation: the gates of some neighbouring zones are free, and all others as they are there.

ghost use Rattle.mari_market.specs.Market.{IsValid};

use crate::around::other_end;
use crate::search::Search;
use crate::words::has;
use mari_market::Market;
use mari_reach::Decision;
use std::alloc::{AllocError, Global};

/// The most nodes of a search near one zone.
const MOST_NEARBY: u32 = 300;

/// Whether each zone is among those of a list or next to one of them.
fn with_neighbours(
    alloc: Global,
    market: &Market,
    zones: &[bool],
) -> Result<Vec<bool>, AllocError> {
    let mut wider = Vec::from_slice(alloc, zones)?;
    for border in market.borders.as_slice() {
        for zone in [border.from, border.to] {
            if zones.get(zone as usize) == Some(&true) {
                if let Some(is_there) = wider.get_mut(other_end(border, zone) as usize) {
                    *is_there = true;
                }
            }
        }
    }
    Ok(wider)
}

/// Whether each zone is the one of this number or next to it; where `wide` is so, or next to such a one.
fn zones_near(
    alloc: Global,
    market: &Market,
    zone: u32,
    wide: bool,
) -> Result<Vec<bool>, AllocError> {
    let mut alone = vec![in alloc; false; market.zones as usize]?;
    if let Some(is_there) = alone.get_mut(zone as usize) {
        *is_there = true;
    }
    let near = with_neighbours(alloc, market, &alone)?;
    if wide {
        return with_neighbours(alloc, market, &near);
    }
    Ok(near)
}

impl Search {
    /// Whether a gate has an order in one of these zones.
    fn is_gate_of(&self, market: &Market, gate: u32, zones: &[bool]) -> bool {
        for place in self.places.gate(gate) {
            if let Some(order) = market.orders.as_slice().get(*place as usize) {
                if zones.get(order.zone as usize) == Some(&true) {
                    return true;
                }
            }
        }
        false
    }

    /// The gates of all other zones, each as in the best word.
    fn gates_beyond(
        &self,
        alloc: Global,
        market: &Market,
        zones: &[bool],
    ) -> Result<Vec<Decision>, AllocError> {
        let mut decisions = Vec::new(alloc);
        for gate in 0..self.word.length {
            if !self.is_gate_of(market, gate, zones) {
                decisions.push(Decision::Gate(gate, has(&self.word, gate)))?;
            }
        }
        Ok(decisions)
    }

    /// Searches near a zone within a budget of nodes. What is found is offered; no node is kept. It says how many there were.
    fn search_near(
        &mut self,
        alloc: Global,
        market: &Market,
        zones: &[bool],
        budget: u32,
    ) -> Result<u32, AllocError>
        requires { IsValid market.now }
    {
        let decisions = self.gates_beyond(alloc, market, zones)?;
        let mut part = self.part(alloc, market, decisions, Vec::new(alloc))?;
        part.run(alloc, market, budget)?;
        self.offer(part.best, part.word);
        Ok(u32::try_from(part.nodes.len()).unwrap_or(budget))
    }

    /// Searches near each zone, first with its neighbours and then with theirs too, within a budget of nodes.
    pub(crate) fn search_nearby(
        &mut self,
        alloc: Global,
        market: &Market,
        budget: u32,
    ) -> Result<(), AllocError>
        requires { IsValid market.now }
    {
        let mut left = budget;
        for wide in [false, true] {
            for zone in 0..market.zones {
                let zones = zones_near(alloc, market, zone, wide)?;
                let spent = self.search_near(alloc, market, &zones, left.min(MOST_NEARBY))?;
                left = left.saturating_sub(spent);
                if left == 0 {
                    return Ok(());
                }
            }
        }
        Ok(())
    }
}
