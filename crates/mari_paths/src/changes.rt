//! Other bounds for some orders of what runs in balance.

ghost use Rattle.std.specs.Prelude.{◌≡◌, ◌≢◌, ◌⊎◌, ◌<◌, ◌≤◌, ◌+◌, ℕ, ◌+ℤ◌, ◌-ℤ◌, length, slice_set, take};
ghost use Rattle.std.specs.List.{All, Contains};
ghost use Rattle.mari_market.specs.Market.{IsValid};
ghost use Rattle.mari_market.specs.Prefix.{bounds_at, IsFeasiblePrefix};
ghost use Rattle.mari_market.specs.Sums.{sum_along, int_at};
ghost use Rattle.mari_network.specs.declared.network.Places.{Places as PlacesRecord};
ghost use Rattle.mari_network.specs.Margins.{AreMargins, AreMarginsOfThese};
ghost use Rattle.mari_network.specs.Network.{ArePlaces};
ghost use Rattle.mari_network.specs.Orders.{slot_of, slots_of, stand_in_of};
ghost use Rattle.mari_network.specs.Slots.{price_of, slot_at, slot_gain, slot_into, zone_of, IsSmallSlot, IsWithinSlot};
ghost use Rattle.mari_paths.specs.Starts.{joint_gain, most_moved, most_short, most_stood_in, order_at, AreFilled, FitsOrder, IsNear, IsInOrder, StandInsNear};
ghost use Rattle.mari_paths.specs.Warm.{plain_span, AreGated, IsPlain};

use crate::margins::complete_margins;
use crate::start::nearest_within;
use mari_gates::states_at;
use mari_market::{Market, Prefix};
use mari_network::{Margin, Slot, gain_of, slot_from, stand_in};

/// Gives a slot other bounds, and its amount the nearest within them. It gives back what the amount lost by that, in
/// MW.
fn put_slot(slots: &mut [Slot], amounts: &mut [i64], place: usize, slot: Slot) -> i64
    requires lengths { length amounts.old ≡ length slots.old }
    requires place { place < length slots.old }
    requires order { IsInOrder slot }
    requires small { IsSmallSlot slot }
    requires near { IsNear most_moved (int_at amounts.old place) }
    ensures slots { slots.new ≡ slice_set slots.old place slot }
    ensures amounts { amounts.new ≡ slice_set amounts.old place (int_at amounts.old place -ℤ result) }
    ensures within { IsWithinSlot slot (int_at amounts.old place -ℤ result) }
{
    let now = amounts[place];
    let next = nearest_within(slot, now);
    slots[place] = slot;
    amounts[place] = next;
    now - next
}

/// Adds to what stands in for a zone, and gives it the bounds of that.
fn stand_for(slots: &mut [Slot], amounts: &mut [i64], place: usize, zone: u32, more: i64)
    requires lengths { length amounts.old ≡ length slots.old }
    requires place { place < length slots.old }
    requires before { IsNear most_stood_in (int_at amounts.old place) }
    requires more { IsNear most_moved more }
    ensures slots { slots.new ≡ slice_set slots.old place (stand_in_of zone (int_at amounts.old place +ℤ more)) }
    ensures amounts { amounts.new ≡ slice_set amounts.old place (int_at amounts.old place +ℤ more) }
{
    let amount = amounts[place] + more;
    slots[place] = stand_in(zone, amount);
    amounts[place] = amount;
}

/// What an order's slot and what stands in for its zone add to the welfare together, in quarter-cents.
fn gain_with_stand_in(market: &Market, slots: &[Slot], amounts: &[i64], place: usize) -> i128
    requires filled { AreFilled market.now slots.now amounts.now }
    requires place { place < length market.now.orders }
    ensures { result ≡ joint_gain market.now slots.now amounts.now place }
{
    let stand = market.orders.as_slice().len() + slots[place].zone as usize;
    gain_of(slots[place], amounts[place]) + gain_of(slots[stand], amounts[stand])
}

/// Gives an order a slot with other bounds, and its amount the nearest within them. What that takes from its zone, or
/// gives to it, is put to what stands in for the zone; and what all amounts are worth together, in quarter-cents, moves
/// with both.
fn change_slot(
    market: &Market,
    slots: &mut [Slot],
    amounts: &mut [i64],
    worth: &mut i128,
    place: usize,
    slot: Slot,
)
    // The place of an order, and a slot in which it can run, of the same zone.
    requires market { IsValid market.now }
    requires place { place < length market.now.orders }
    requires slot { FitsOrder market.now.zones (order_at market.now place) slot }
    requires zone { slot.zone ≡ zone_of slots.old place }

    // What runs, and what it is worth.
    requires filled { AreFilled market.now slots.old amounts.old }
    requires near { StandInsNear most_stood_in market.now amounts.old }
    requires worth { worth.old ≡ sum_along slot_gain slots.old amounts.old }

    // The same of what runs then, where each zone puts in what it did.
    ensures filled { AreFilled market.now slots.new amounts.new }
    ensures near { (most : ℕ) → StandInsNear most market.now amounts.old → StandInsNear (most + most_moved) market.now amounts.new }
    ensures into { (z : ℕ) → sum_along (slot_into z) slots.new amounts.new ≡ sum_along (slot_into z) slots.old amounts.old }
    ensures worth { worth.new ≡ sum_along slot_gain slots.new amounts.new }

    // Of the orders this one's slot and amount changed, and no slot its zone.
    ensures here { slot_at slots.new place ≡ slot }
    ensures others { (k : ℕ) → k < length market.now.orders → k ≢ place → slot_at slots.new k ≡ slot_at slots.old k }
    ensures amounts { (k : ℕ) → k < length market.now.orders → k ≢ place → int_at amounts.new k ≡ int_at amounts.old k }
    ensures zones { (k : ℕ) → zone_of slots.new k ≡ zone_of slots.old k }
{
    if slots[place] == slot {
        return;
    }
    let before = gain_with_stand_in(market, slots, amounts, place);
    let stand = market.orders.as_slice().len() + slot.zone as usize;
    let less = put_slot(slots, amounts, place, slot);
    stand_for(slots, amounts, stand, slot.zone, less);
    *worth += gain_with_stand_in(market, slots, amounts, place) - before;
}

/// Gives the orders at these places their bounds at a prefix, and brings up to date what all amounts are worth
/// together, in quarter-cents.
fn change_slots(
    market: &Market,
    prefix: &Prefix,
    gated: &[usize],
    slots: &mut [Slot],
    amounts: &mut [i64],
    worth: &mut i128,
)
    // The orders at other places have their bounds at the prefix already.
    requires market { IsValid market.now }
    requires prefix { IsFeasiblePrefix market.now prefix.now }
    requires there { All (λ k. k < length market.now.orders) gated.now }
    requires few { length gated.now ≤ length market.now.orders }
    requires zones { (k : ℕ) → k < length market.now.orders → zone_of slots.old k ≡ (order_at market.now k).zone }
    requires rest { (k : ℕ) → k < length market.now.orders
        → Contains gated.now k ⊎ (slot_at slots.old k ≡ slot_of (bounds_at market.now prefix.now (order_at market.now k)) (order_at market.now k)) }

    // What runs, and what it is worth.
    requires filled { AreFilled market.now slots.old amounts.old }
    requires near { StandInsNear most_short market.now amounts.old }
    requires worth { worth.old ≡ sum_along slot_gain slots.old amounts.old }

    // The same of what runs then, where each zone puts in what it did, and all orders have their bounds.
    ensures filled { AreFilled market.now slots.new amounts.new }
    ensures into { (z : ℕ) → sum_along (slot_into z) slots.new amounts.new ≡ sum_along (slot_into z) slots.old amounts.old }
    ensures worth { worth.new ≡ sum_along slot_gain slots.new amounts.new }
    ensures orders { take (length market.now.orders) slots.new ≡ slots_of (bounds_at market.now prefix.now) market.now.orders }

    // The orders at other places keep their slots and amounts, and all slots their zones.
    ensures others { (k : ℕ) → k < length market.now.orders → (Contains gated.now k → ⊥)
        → (slot_at slots.new k ≡ slot_at slots.old k) × (int_at amounts.new k ≡ int_at amounts.old k) }
    ensures zones { (k : ℕ) → zone_of slots.new k ≡ zone_of slots.old k }
{
    let states = states_at(market, prefix);
    let orders = market.orders.as_slice();
    for place in gated {
        let order = &orders[*place];
        let (least, greatest) = states.span(order);
        let slot = slot_from(order, least, greatest);
        change_slot(market, slots, amounts, worth, *place, slot);
    }
}

/// Gives the orders of gates their bounds at a prefix, brings up to date what all amounts are worth together, in
/// quarter-cents, and makes the margins of the orders without a gate those of all orders.
pub fn set_bounds(
    market: &Market,
    prefix: &Prefix,
    gated: &[usize],
    slots: &mut [Slot],
    amounts: &mut [i64],
    worth: &mut i128,
    margins: &mut [Margin],
)
    // The places of the orders of gates; the others have the bounds that they have at every prefix.
    requires market { IsValid market.now }
    requires prefix { IsFeasiblePrefix market.now prefix.now }
    requires gated { AreGated market.now gated.now }
    requires zones { (k : ℕ) → k < length market.now.orders → zone_of slots.old k ≡ (order_at market.now k).zone }
    requires prices { (k : ℕ) → k < length market.now.orders → price_of slots.old k ≡ (order_at market.now k).price.0 }
    requires plain { (k : ℕ) → IsPlain market.now k → slot_at slots.old k ≡ slot_of (plain_span (order_at market.now k)) (order_at market.now k) }

    // What runs and what it is worth, with the margins of the orders without a gate.
    requires filled { AreFilled market.now slots.old amounts.old }
    requires near { StandInsNear most_short market.now amounts.old }
    requires worth { worth.old ≡ sum_along slot_gain slots.old amounts.old }
    requires margins { AreMarginsOfThese (IsPlain market.now) slots.old amounts.old market.now.zones margins.old }

    // The same of what runs then, with the margins of all orders, where each zone puts in what it did.
    ensures filled { AreFilled market.now slots.new amounts.new }
    ensures places { (places : PlacesRecord) → places.on_ladders ≡ length market.now.orders → ArePlaces market.now.zones slots.old market.now.borders places
        → ArePlaces market.now.zones slots.new market.now.borders places }
    ensures margins { AreMargins slots.new amounts.new market.now.zones (length market.now.orders) margins.new }
    ensures into { (z : ℕ) → sum_along (slot_into z) slots.new amounts.new ≡ sum_along (slot_into z) slots.old amounts.old }
    ensures worth { worth.new ≡ sum_along slot_gain slots.new amounts.new }

    // All orders have their bounds at the prefix. Those at other places keep their slots.
    ensures orders { take (length market.now.orders) slots.new ≡ slots_of (bounds_at market.now prefix.now) market.now.orders }
    ensures others { (k : ℕ) → k < length market.now.orders → (Contains gated.now k → ⊥) → slot_at slots.new k ≡ slot_at slots.old k }
{
    change_slots(market, prefix, gated, slots, amounts, worth);
    complete_margins(market, gated, slots, amounts, margins);
}

/// Puts back the slots at these places and those from `orders` on.
pub fn put_back(slots: &mut [Slot], before: &[Slot], places: &[usize], orders: usize)
    requires lengths { length slots.old ≡ length before.now }
    requires there { All (λ k. k < orders) places.now }
    requires few { orders ≤ length before.now }
    requires rest { (k : ℕ) → k < orders → Contains places.now k ⊎ (slot_at slots.old k ≡ slot_at before.now k) }
    ensures { slots.new ≡ before.now }
{
    for place in places {
        slots[*place] = before[*place];
    }
    slots[orders..].copy_from_slice(&before[orders..]);
}
