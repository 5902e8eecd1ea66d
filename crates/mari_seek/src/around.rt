//! The zones about a zone: those that can send to it, or that it can send to.

use mari_market::{Border, Cut, CutSide};
use mari_units::{Items, MOST_ZONES};
use std::alloc::{AllocError, Global};

/// Zones that can send to a zone, or that it can send to, each with the border on the way there.
#[derive(Drop)]
pub(crate) struct Around {
    /// The border on the way from each zone.
    by: [u32; MOST_ZONES],
    /// Whether each zone is among them.
    reached: [bool; MOST_ZONES],
    /// The zones in the order in which they were found.
    queue: [u32; MOST_ZONES],
    /// How many there are.
    count: usize,
}

/// The other end of a border.
pub(crate) fn other_end(border: &Border, zone: u32) -> u32 {
    if border.from == zone {
        border.to
    } else {
        border.from
    }
}

impl Around {
    /// The zone that was found at this place, if there is one.
    pub(crate) fn zone(&self, place: usize) -> Option<u32> {
        if place < self.count {
            self.queue.get(place).copied()
        } else {
            None
        }
    }

    /// The zone alone.
    pub(crate) fn start(zone: u32) -> Around {
        let mut around = Around {
            by: [0; MOST_ZONES],
            reached: [false; MOST_ZONES],
            queue: [0; MOST_ZONES],
            count: 0,
        };
        around.add(zone, 0);
        around
    }

    /// Adds a zone that a border leads to, if it is new.
    pub(crate) fn add(&mut self, zone: u32, border: u32) {
        let place = zone as usize;
        if place >= MOST_ZONES || self.reached[place] || self.count >= MOST_ZONES {
            return;
        }
        self.reached[place] = true;
        self.by[place] = border;
        self.queue[self.count] = zone;
        self.count += 1;
    }

    /// The border on the way from a zone.
    pub(crate) fn border_from(&self, zone: u32) -> usize {
        match self.by.get(zone as usize) {
            Some(border) => *border as usize,
            None => 0,
        }
    }

    /// The cut of these zones, from the first zone on.
    pub(crate) fn cut(&self, alloc: Global, side: CutSide) -> Result<Cut, AllocError> {
        let mut zones = Vec::new(alloc);
        for zone in 0..MOST_ZONES {
            if self.reached[zone] {
                zones.push(zone as u32)?;
            }
        }
        Ok(Cut {
            side,
            zones: Items::of(zones),
        })
    }
}
