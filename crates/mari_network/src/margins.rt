//! The marginal slots of each zone.

ghost use Rattle.std.specs.Prelude.{◌≡◌, ◌≢◌, ◌⊎◌, ℕ, ℤ, ◌<◌, ◌+◌, ◌≤ℤ◌, ◌<ℤ◌, true, false, length, slice_index_or, Some, None, IfSome};
ghost use Rattle.std.specs.List.{All};
ghost use Rattle.mari_network.specs.Slots.{price_of, zone_of, IsSmallSlot};
ghost use Rattle.mari_network.specs.Chain.{hop_at};
ghost use Rattle.mari_network.specs.Margins.{no_margin, dearest_at, cheapest_at, IsAbove, IsBelow, IsDearestWith, IsCheapestWith, IsMarginWith, IsDearestOf, IsSource};

use crate::chain::Hop;
use crate::slots::{BEYOND, Slot};

/// A zone's dearest slot that may put in less, and its cheapest that may put in more.
#[derive(Clone, Copy, Drop)]
pub struct Margin {
    /// The place of the dearest that may put in less.
    pub dearest: Option<usize>,
    /// The place of the cheapest that may put in more.
    pub cheapest: Option<usize>,
}

/// The margin of each zone, by itself and with what stands in for it.
#[derive(Drop)]
pub struct Margins {
    /// Those of the slots on its ladder.
    pub on_ladders: Vec<Margin>,
    /// Those of all its slots.
    pub all: Vec<Margin>,
}

/// A slot that may put in more, of the zone of a hop.
#[derive(Clone, Copy, Drop)]
pub struct Source {
    /// The place of the slot.
    pub slot: usize,
    /// The place of the hop.
    pub at: usize,
}

/// The dearer of two slots. Where they cost the same it is the first; no clause says so.
fn dearer(slots: &[Slot], best: Option<usize>, slot: usize) -> Option<usize>
    requires best { (i : ℕ) → best ≡ Some i → i < length slots.now }
    requires slot { slot < length slots.now }
    ensures one { (result ≡ best) ⊎ (result ≡ Some slot) }
    ensures above { IsAbove slots.now (price_of slots.now slot) result }
    ensures keeps { (v : ℤ) → IsAbove slots.now v best → IsAbove slots.now v result }
{
    if let Some(first) = best {
        if slots[first].price >= slots[slot].price {
            return best;
        }
    }
    Some(slot)
}

/// The cheaper of two slots. Where they cost the same it is the first; no clause says so.
fn cheaper(slots: &[Slot], best: Option<usize>, slot: usize) -> Option<usize>
    requires best { (i : ℕ) → best ≡ Some i → i < length slots.now }
    requires slot { slot < length slots.now }
    ensures one { (result ≡ best) ⊎ (result ≡ Some slot) }
    ensures below { IsBelow slots.now (price_of slots.now slot) result }
    ensures keeps { (v : ℤ) → IsBelow slots.now v best → IsBelow slots.now v result }
{
    if let Some(first) = best {
        if slots[first].price <= slots[slot].price {
            return best;
        }
    }
    Some(slot)
}

/// The dearer of two slots. Where they cost the same it is that of the lesser place; no clause says so.
pub fn dearer_in_order(slots: &[Slot], best: Option<usize>, slot: usize) -> Option<usize>
    requires best { (i : ℕ) → best ≡ Some i → i < length slots.now }
    requires slot { slot < length slots.now }
    ensures one { (result ≡ best) ⊎ (result ≡ Some slot) }
    ensures above { IsAbove slots.now (price_of slots.now slot) result }
    ensures keeps { (v : ℤ) → IsAbove slots.now v best → IsAbove slots.now v result }
{
    if let Some(first) = best {
        if first > slot && slots[first].price == slots[slot].price {
            return Some(slot);
        }
    }
    dearer(slots, best, slot)
}

/// The cheaper of two slots. Where they cost the same it is that of the lesser place; no clause says so.
pub fn cheaper_in_order(slots: &[Slot], best: Option<usize>, slot: usize) -> Option<usize>
    requires best { (i : ℕ) → best ≡ Some i → i < length slots.now }
    requires slot { slot < length slots.now }
    ensures one { (result ≡ best) ⊎ (result ≡ Some slot) }
    ensures below { IsBelow slots.now (price_of slots.now slot) result }
    ensures keeps { (v : ℤ) → IsBelow slots.now v best → IsBelow slots.now v result }
{
    if let Some(first) = best {
        if first > slot && slots[first].price == slots[slot].price {
            return Some(slot);
        }
    }
    cheaper(slots, best, slot)
}

/// The dearer of a slot, if it may put in less, and another. Where they cost the same it is that of the lesser place;
/// no clause says so.
pub fn dearest_with_in_order(
    slots: &[Slot],
    amounts: &[i64],
    best: Option<usize>,
    slot: usize,
) -> Option<usize>
    requires lengths { length amounts.now ≡ length slots.now }
    requires slot { slot < length slots.now }
    requires best { (i : ℕ) → best ≡ Some i → i < length slots.now }
    ensures { IsDearestWith slots.now amounts.now best slot result }
{
    if amounts[slot] <= slots[slot].low {
        return best;
    }
    dearer_in_order(slots, best, slot)
}

/// The cheaper of a slot, if it may put in more, and another. Where they cost the same it is that of the lesser place;
/// no clause says so.
pub fn cheapest_with_in_order(
    slots: &[Slot],
    amounts: &[i64],
    best: Option<usize>,
    slot: usize,
) -> Option<usize>
    requires lengths { length amounts.now ≡ length slots.now }
    requires slot { slot < length slots.now }
    requires best { (i : ℕ) → best ≡ Some i → i < length slots.now }
    ensures { IsCheapestWith slots.now amounts.now best slot result }
{
    if amounts[slot] >= slots[slot].high {
        return best;
    }
    cheaper_in_order(slots, best, slot)
}

/// Adds a slot to the marginal slots of its zone. Of two that cost the same the one of the lesser place is marginal; no
/// clause says so.
pub fn add_to_margin(slots: &[Slot], amounts: &[i64], margins: &mut [Margin], slot: usize)
    // A slot of a zone whose entry names slots.
    requires lengths { length amounts.now ≡ length slots.now }
    requires slot { slot < length slots.now }
    requires zone { zone_of slots.now slot < length margins.old }
    requires dearest { (i : ℕ) → dearest_at margins.old (zone_of slots.now slot) ≡ Some i → i < length slots.now }
    requires cheapest { (i : ℕ) → cheapest_at margins.old (zone_of slots.now slot) ≡ Some i → i < length slots.now }

    // The entry of this zone has the slot, and those of others stay.
    ensures here { IsMarginWith slots.now amounts.now (slice_index_or margins.old (zone_of slots.now slot) no_margin) slot
        (slice_index_or margins.new (zone_of slots.now slot) no_margin) }
    ensures others { (z : ℕ) → z ≢ zone_of slots.now slot → slice_index_or margins.new z no_margin ≡ slice_index_or margins.old z no_margin }
{
    let zone = slots[slot].zone as usize;
    let before = margins[zone];
    margins[zone] = Margin {
        dearest: dearest_with_in_order(slots, amounts, before.dearest, slot),
        cheapest: cheapest_with_in_order(slots, amounts, before.cheapest, slot),
    };
}

/// The dearest slot of a zone that is not marked, of those that may put in less. Where some cost the same it is that of
/// the first zone; no clause says so.
pub fn dearest(slots: &[Slot], margins: &[Margin], marked: &[bool]) -> Option<usize>
    requires small { All IsSmallSlot slots.now }
    requires marks { length marked.now ≡ length margins.now }
    requires there { (z i : ℕ) → z < length margins.now → dearest_at margins.now z ≡ Some i → i < length slots.now }
    ensures there { IfSome result (λ i. i < length slots.now) }
    ensures dearest { IsDearestOf slots.now margins.now marked.now (length margins.now) result }
{
    let mut best = None;
    let mut above = -BEYOND - 1;
    for zone in 0..margins.len() {
        if !marked[zone] {
            if let Some(slot) = margins[zone].dearest {
                if slots[slot].price > above {
                    above = slots[slot].price;
                    best = Some(slot);
                }
            }
        }
    }
    best
}

/// Whether a price is below another, or is the same and of a zone that comes first.
fn goes_first(price: i64, zone: u32, below: i64, other: u32) -> bool
    ensures yes { result ≡ true → (price <ℤ below) ⊎ ((price ≡ below) × (zone < other)) }
    ensures no { result ≡ false → below ≤ℤ price }
{
    if price > below {
        return false;
    }
    price < below || zone < other
}

/// The cheapest slot of the zones of hops, of those that may put in more, if it is cheaper than a limit. Where some
/// cost the same it is that of the first zone; no clause says so.
pub fn cheapest(slots: &[Slot], margins: &[Margin], hops: &[Hop], limit: i64) -> Option<Source>
    requires zones { (k : ℕ) → k < length hops.now → (hop_at hops.now k).zone < length margins.now }
    requires there { (z i : ℕ) → z < length margins.now → cheapest_at margins.now z ≡ Some i → i < length slots.now }
    ensures some { IfSome result (IsSource slots.now margins.now hops.now limit) }
    ensures none { result ≡ None → (k i : ℕ) → k < length hops.now → cheapest_at margins.now (hop_at hops.now k).zone ≡ Some i → limit ≤ℤ price_of slots.now i }
{
    let mut best = None;
    let mut below = limit;
    let mut zone = 0;
    for (at, hop) in hops.iter().enumerate() {
        if let Some(slot) = margins[hop.zone as usize].cheapest {
            let price = slots[slot].price;
            if goes_first(price, hop.zone, below, zone) {
                below = price;
                zone = hop.zone;
                best = Some(Source { slot, at });
            }
        }
    }
    best
}
