//! A zone's slots, looked at by their price.

ghost use Rattle.std.specs.Prelude.{◌≡◌, ◌⊎◌, ℕ, ℤ, ◌<◌, ◌≤◌, ◌≤ℤ◌, ◌<ℤ◌, true, false, length, slice_index_or, Some};
ghost use Rattle.std.specs.List.{All};
ghost use Rattle.mari_network.specs.declared.network.Rung.{Rung as RungRecord};
ghost use Rattle.mari_network.specs.Slots.{price_of, zone_of, CanLess, CanMore};
ghost use Rattle.mari_network.specs.Network.{IsNetwork, IsRising};
ghost use Rattle.mari_network.specs.Margins.{IsAbove, IsBelow, IsDearestRung, IsCheapestRung, IsDearestTo, IsCheapestFrom};

use crate::margins::{cheapest_with_in_order, dearest_with_in_order};
use crate::network::{Network, Rung, ladder_at};
use crate::slots::Slot;

/// How many of a ladder's rungs cost at most this: the first.
pub fn rungs_to(ladder: &[Rung], top: i64) -> usize
    requires { IsRising ladder.now }
    ensures few { result ≤ length ladder.now }
    ensures to { (j : ℕ) (d : RungRecord) → j < result → (slice_index_or ladder.now j d).price ≤ℤ top }
    ensures above { (j : ℕ) (d : RungRecord) → result ≤ j → j < length ladder.now → top <ℤ (slice_index_or ladder.now j d).price }
{
    ladder.partition_point(|rung| rung.price <= top)
}

/// How many of a ladder's rungs cost less than this: the first.
fn rungs_below(ladder: &[Rung], least: i64) -> usize
    requires { IsRising ladder.now }
    ensures few { result ≤ length ladder.now }
    ensures below { (j : ℕ) (d : RungRecord) → j < result → (slice_index_or ladder.now j d).price <ℤ least }
    ensures from { (j : ℕ) (d : RungRecord) → result ≤ j → j < length ladder.now → least ≤ℤ (slice_index_or ladder.now j d).price }
{
    ladder.partition_point(|rung| rung.price < least)
}

/// Whether there is a best slot that is dearer than this price.
fn is_dearer(slots: &[Slot], best: Option<usize>, price: i64) -> bool
    requires best { (i : ℕ) → best ≡ Some i → i < length slots.now }
    ensures yes { result ≡ true → (v : ℤ) → v ≤ℤ price → IsAbove slots.now v best }
    ensures no { result ≡ false → (v : ℤ) → IsAbove slots.now v best → v ≤ℤ price }
{
    match best {
        None => false,
        Some(first) => slots[first].price > price,
    }
}

/// The dearest of a ladder's first rungs that may put in less. No clause says which it is of two that cost the same.
fn dearest_rung(slots: &[Slot], amounts: &[i64], ladder: &[Rung], end: usize) -> Option<usize>
    requires lengths { length amounts.now ≡ length slots.now }
    requires there { All (λ r. r.place < length slots.now) ladder.now }
    requires price { All (λ r. r.price ≡ price_of slots.now r.place) ladder.now }
    requires rising { IsRising ladder.now }
    requires end { end ≤ length ladder.now }
    ensures { IsDearestRung slots.now amounts.now ladder.now 0 end result }
{
    let mut best = None;
    let mut at = end;
    while at > 0 {
        at -= 1;
        let Rung { price, place } = ladder[at];
        if is_dearer(slots, best, price) {
            return best;
        }
        if amounts[place] > slots[place].low {
            best = Some(place);
        }
    }
    best
}

/// The cheapest of a ladder's last rungs that may put in more. No clause says which it is of two that cost the same.
fn cheapest_rung(slots: &[Slot], amounts: &[i64], ladder: &[Rung], start: usize) -> Option<usize>
    requires lengths { length amounts.now ≡ length slots.now }
    requires there { All (λ r. r.place < length slots.now) ladder.now }
    requires price { All (λ r. r.price ≡ price_of slots.now r.place) ladder.now }
    requires rising { IsRising ladder.now }
    ensures { IsCheapestRung slots.now amounts.now ladder.now start (length ladder.now) result }
{
    for at in start..ladder.len() {
        let place = ladder[at].place;
        if amounts[place] < slots[place].high {
            return Some(place);
        }
    }
    None
}

/// The dearest of some slots that may put in less, with what stands in for a zone.
pub fn dearest_with_stand_in(
    network: &Network,
    amounts: &[i64],
    best: Option<usize>,
    zone: usize,
) -> Option<usize>
    requires network { IsNetwork network.now }
    requires amounts { length amounts.now ≡ length network.now.slots.now }
    requires zone { zone < length network.now.meeting.now }
    requires best { (i : ℕ) → best ≡ Some i → i < length network.now.slots.now }
    ensures one { (i : ℕ) → result ≡ Some i → (best ≡ Some i) ⊎ (CanLess network.now.slots.now amounts.now i × (zone_of network.now.slots.now i ≡ zone)) }
    ensures keeps { (v : ℤ) → IsAbove network.now.slots.now v best → IsAbove network.now.slots.now v result }
    ensures above { (k : ℕ) → network.now.on_ladders ≤ k → CanLess network.now.slots.now amounts.now k → zone_of network.now.slots.now k ≡ zone
        → IsAbove network.now.slots.now (price_of network.now.slots.now k) result }
{
    let slots = network.slots;
    let place = network.on_ladders + zone;
    if place >= slots.len() {
        return best;
    }
    dearest_with_in_order(slots, amounts, best, place)
}

/// The cheapest of some slots that may put in more, with what stands in for a zone.
pub fn cheapest_with_stand_in(
    network: &Network,
    amounts: &[i64],
    best: Option<usize>,
    zone: usize,
) -> Option<usize>
    requires network { IsNetwork network.now }
    requires amounts { length amounts.now ≡ length network.now.slots.now }
    requires zone { zone < length network.now.meeting.now }
    requires best { (i : ℕ) → best ≡ Some i → i < length network.now.slots.now }
    ensures one { (i : ℕ) → result ≡ Some i → (best ≡ Some i) ⊎ (CanMore network.now.slots.now amounts.now i × (zone_of network.now.slots.now i ≡ zone)) }
    ensures keeps { (v : ℤ) → IsBelow network.now.slots.now v best → IsBelow network.now.slots.now v result }
    ensures below { (k : ℕ) → network.now.on_ladders ≤ k → CanMore network.now.slots.now amounts.now k → zone_of network.now.slots.now k ≡ zone
        → IsBelow network.now.slots.now (price_of network.now.slots.now k) result }
{
    let slots = network.slots;
    let place = network.on_ladders + zone;
    if place >= slots.len() {
        return best;
    }
    cheapest_with_in_order(slots, amounts, best, place)
}

/// The dearest of the slots on a zone's ladder that may put in less and cost at most this.
pub fn dearest_to(network: &Network, amounts: &[i64], zone: usize, top: i64) -> Option<usize>
    requires network { IsNetwork network.now }
    requires amounts { length amounts.now ≡ length network.now.slots.now }
    requires zone { zone < length network.now.meeting.now }
    ensures { IsDearestTo network.now.slots.now amounts.now zone network.now.on_ladders top result }
{
    let ladder = ladder_at(network, zone);
    dearest_rung(network.slots, amounts, ladder, rungs_to(ladder, top))
}

/// The cheapest of the slots on a zone's ladder that may put in more and cost at least this.
pub fn cheapest_from(network: &Network, amounts: &[i64], zone: usize, least: i64) -> Option<usize>
    requires network { IsNetwork network.now }
    requires amounts { length amounts.now ≡ length network.now.slots.now }
    requires zone { zone < length network.now.meeting.now }
    ensures { IsCheapestFrom network.now.slots.now amounts.now zone network.now.on_ladders least result }
{
    let ladder = ladder_at(network, zone);
    cheapest_rung(network.slots, amounts, ladder, rungs_below(ladder, least))
}
