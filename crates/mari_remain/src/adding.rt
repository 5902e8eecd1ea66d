//! Adding what a published block took.

ghost use Rattle.std.specs.Prelude.{◌≡◌, ◌≤◌, ◌<◌, ◌+◌, ◌+ℤ◌, ◌||◌, ◌&&◌, if◌then◌else◌, ℕ, false, get_or, length, nat_lt, pos, unsigned_abs};
ghost use Rattle.std.specs.List.{All};
ghost use Rattle.mari_remain.specs.Blocks.{mw_beside};

use mari_units::{MOST_BID_MW, MOST_MW};

/// Adds the MW beside these bids.
pub(crate) fn add_mw(mw: &mut [u32], bids: &[u32], more: &[u32])
    requires there { All (λ bid. bid < length mw.old) bids.now }
    requires long { length bids.now ≤ length more.now }
    requires small { (i : ℕ) → get_or mw.old i 0 + mw_beside i bids.now more.now ≤ MOST_BID_MW }
    ensures { (i : ℕ) → get_or mw.new i 0 ≡ get_or mw.old i 0 + mw_beside i bids.now more.now }
{
    for (place, bid) in bids.iter().enumerate() {
        mw[*bid as usize] += more[place];
    }
}

/// Marks those of these bids that have more than 0 MW beside them.
fn mark(marks: &mut [bool], bids: &[u32], more: &[u32])
    requires there { All (λ bid. bid < length marks.old) bids.now }
    requires long { length bids.now ≤ length more.now }
    ensures { (i : ℕ) → get_or marks.new i false ≡ (get_or marks.old i false || nat_lt 0 (mw_beside i bids.now more.now)) }
{
    for (place, bid) in bids.iter().enumerate() {
        if more[place] > 0 {
            marks[*bid as usize] = true;
        }
    }
}

/// Sets each flow to 0.
fn set_to_zero(flow: &mut [i64])
    ensures { (k : ℕ) → get_or flow.new k (pos 0) ≡ pos 0 }
{
    for k in 0..flow.len() {
        flow[k] = 0;
    }
}

/// Adds flows, border by border.
fn add_flows(flow: &mut [i64], more: &[i64])
    requires lengths { length more.now ≡ length flow.old }
    requires small { (k : ℕ) → unsigned_abs (get_or flow.old k (pos 0) +ℤ get_or more.now k (pos 0)) ≤ MOST_MW }
    ensures { (k : ℕ) → get_or flow.new k (pos 0) ≡ get_or flow.old k (pos 0) +ℤ get_or more.now k (pos 0) }
{
    for k in 0..flow.len() {
        flow[k] += more[k];
    }
}

/// Marks these bids, if the run is direct.
pub(crate) fn mark_if(direct: bool, marks: &mut [bool], bids: &[u32], more: &[u32])
    requires there { All (λ bid. bid < length marks.old) bids.now }
    requires long { length bids.now ≤ length more.now }
    ensures { (i : ℕ) → get_or marks.new i false ≡ (get_or marks.old i false || (direct && nat_lt 0 (mw_beside i bids.now more.now))) }
{
    if direct {
        mark(marks, bids, more);
    }
}

/// Keeps the flows of the same quarter, and sets those of another to 0.
fn keep_if(same: bool, flow: &mut [i64])
    ensures { (k : ℕ) → get_or flow.new k (pos 0) ≡ (if same then get_or flow.old k (pos 0) else pos 0) }
{
    if !same {
        set_to_zero(flow);
    }
}

/// Adds flows to those of the same quarter, or to nothing where another quarter begins.
pub(crate) fn keep_and_add(same: bool, flow: &mut [i64], more: &[i64])
    requires lengths { length more.now ≡ length flow.old }
    requires small { (k : ℕ) → unsigned_abs ((if same then get_or flow.old k (pos 0) else pos 0) +ℤ get_or more.now k (pos 0)) ≤ MOST_MW }
    ensures { (k : ℕ) → get_or flow.new k (pos 0) ≡ (if same then get_or flow.old k (pos 0) else pos 0) +ℤ get_or more.now k (pos 0) }
{
    keep_if(same, flow);
    add_flows(flow, more);
}
