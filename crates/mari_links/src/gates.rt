//! How many bids of a quarter have a gate.
ghost use Rattle.std.specs.Prelude.{◌≡◌, ◌≤◌, ◌<◌, ℕ, filter, length, IfOk};
ghost use Rattle.std.specs.List.{range_with_len};
ghost use Rattle.mari_links.specs.Gates.{has_gate_at};
ghost use Rattle.mari_links.specs.Links.{has_too_many as has_too_many_in, quarter_of as quarter_in};

use crate::entries::Entry;
use crate::lines::quarter_of;
use mari_bids::BidBook;
use mari_rows::count_one;
use mari_units::MOST_GATES;
use std::alloc::{AllocError, Global};

/// The last quarter of these bids.
fn last_quarter(bids: &BidBook) -> u32
    ensures { (bid : ℕ) → quarter_in bids.now bid ≤ result }
{
    let mut last = 0;
    for bid in bids.bids.as_slice() {
        last = last.max(bid.quarter);
    }
    last
}

/// Whether some quarter has more bids with a gate than are taken.
pub fn has_too_many_gates(
    alloc: Global,
    bids: &BidBook,
    entries: &[Entry],
) -> Result<bool, AllocError>
    requires { length entries.now ≡ length bids.now.ids }
    ensures { IfOk result (λ many. many ≡ has_too_many_in bids.now (filter (has_gate_at entries.now) (range_with_len 0 (length bids.now.ids)))) }
{
    let mut counts = vec![in alloc; 0u32; last_quarter(bids) as usize + 1]?;
    for bid in 0..bids.ids.len() {
        if !entries[bid as usize].is_gated() {
            continue;
        }
        if !count_one(&mut counts, quarter_of(bids, bid), MOST_GATES as u32) {
            return Ok(true);
        }
    }
    Ok(false)
}
