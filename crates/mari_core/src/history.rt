//! A list of events, one after the other.

ghost use Rattle.std.specs.Prelude.{◌≤◌, pos, IfOk};
ghost use Rattle.mari_market.specs.Finding.{IsAttained};
ghost use Rattle.mari_market.specs.Market.{IsValid};
ghost use Rattle.mari_market.specs.Relaxation.{IsClosedWelfare};
ghost use Rattle.mari_core.specs.Machine.{started, KeepsFacts};
ghost use Rattle.mari_core.specs.Replay.{AreProper, IsReplayed};
ghost use Rattle.mari_market.specs.Clearing.{IsBudget};

use crate::event::{Event, ReplayFault, StepFault};
use crate::search::Search;
use mari_market::{Attained, Market};
use std::alloc::Global;

/// The search after a list of events, or the first of them that is refused, counted from 1. No event takes memory:
/// where it runs out, the search wasn't started, and the place is 0.
///
/// The conditions are those of `Search::start`, and of `Search::step` for each event up to the first that is refused.
pub fn replay<'m>(
    alloc: Global,
    market: &'m Market,
    actors: u32,
    first: Attained,
    budget: u32,
    events: Vec<Event>,
) -> Result<Search<'m>, ReplayFault>
    // What `Search::start` asks for, and what `Search::step` asks for at each event.
    requires market { IsValid market.now }
    requires actors { 1 ≤ actors }
    requires attained { IsAttained market.now first }
    requires closed { IsClosedWelfare market.now (pos first.welfare) }
    requires budget { IsBudget budget }
    requires events { AreProper (started market.now actors first budget) events.items }

    // The search after the events, or the first event that is refused.
    ensures replayed { IsReplayed (started market.now actors first budget) events.items result }
    ensures facts { IfOk result KeepsFacts }
{
    let mut search = match Search::start(alloc, market, actors, first, budget) {
        Ok(search) => search,
        Err(_) => return Err(ReplayFault {
            place: 0,
            fault: StepFault::Memory,
        }),
    };
    let mut place = 0;
    for event in events {
        place += 1;
        if let Err(fault) = search.step(event) {
            return Err(ReplayFault { place, fault });
        }
    }
    Ok(search)
}
