//! Orders as amounts of energy put in.

ghost use Rattle.std.specs.Prelude.{◌≡◌, ℕ, ℤ, ◌+ℤ◌, ◌-ℤ◌, ◌*ℤ◌, ◌<◌, length, slice_set, IfOk};
ghost use Rattle.std.specs.List.{All, AllZip};
ghost use Rattle.mari_market.specs.Sums.{sum_along, int_at};
ghost use Rattle.mari_network.specs.Slots.{slot_at, at_zone, slot_into, slot_gain, IsWithinSlot, IsSmallSlot};
ghost use Rattle.mari_network.specs.Orders.{slot_of, slots_of, stand_in_of, AreOrderSlots};
ghost use Rattle.mari_market.specs.Bounds.{Span};
ghost use Rattle.mari_market.specs.Market.{IsValid};
ghost use Rattle.mari_market.specs.Prefix.{bounds_at, IsFeasiblePrefix};
ghost use Rattle.mari_market.specs.declared.market.Order.{Order};

use mari_gates::states_at;
use mari_market::{Market, Order, Prefix, Side, worth};
use mari_units::{Cents, MOST_ZONES};
use std::alloc::{AllocError, Global};

/// A price above that of every order, in cents per MWh: the greatest is `CAP`, 9,999,900.
pub const BEYOND: i64 = 20_000_000;

/// What may put energy into a zone at a price, or take it out where the amount is negative.
#[derive(Clone, Copy, Drop, PartialEq, Eq)]
pub struct Slot {
    /// The place of the zone.
    pub zone: u32,
    /// The price, in cents per MWh.
    pub price: i64,
    /// The least amount, in MW: below 0 where energy is taken out.
    pub low: i64,
    /// The greatest amount, in MW.
    pub high: i64,
}

/// Lets a slot put in more, or less where that is negative.
pub fn move_amount(slots: &[Slot], amounts: &mut [i64], at: usize, more: i64)
    // The slot may put in what it then does.
    requires at { at < length slots.now }
    requires lengths { length amounts.old ≡ length slots.now }
    requires small { IsSmallSlot (slot_at slots.now at) }
    requires moved { IsWithinSlot (slot_at slots.now at) (int_at amounts.old at +ℤ more) }

    // One amount changes, and none leaves its slot's bounds.
    ensures moved { amounts.new ≡ slice_set amounts.old at (int_at amounts.old at +ℤ more) }
    ensures within { AllZip IsWithinSlot slots.now amounts.old → AllZip IsWithinSlot slots.now amounts.new }

    // What that does to a zone's sum, and to what all is worth.
    ensures into { (z : ℕ)
        → sum_along (slot_into z) slots.now amounts.new ≡ sum_along (slot_into z) slots.now amounts.old +ℤ at_zone z (slot_at slots.now at).zone more }
    ensures worth { sum_along slot_gain slots.now amounts.new ≡ sum_along slot_gain slots.now amounts.old -ℤ ((slot_at slots.now at).price *ℤ more) }
{
    let now = amounts[at];
    amounts[at] = now + more;
}

/// What an amount of a slot adds to the welfare, in quarter-cents.
pub fn gain_of(slot: Slot, amount: i64) -> i128
    ensures { result ≡ slot_gain slot amount }
{
    -worth(Cents(slot.price), amount)
}

/// What amounts of slots add to the welfare together, in quarter-cents.
pub fn worth_of(slots: &[Slot], amounts: &[i64]) -> i128
    requires lengths { length amounts.now ≡ length slots.now }
    requires small { All IsSmallSlot slots.now }
    requires within { AllZip IsWithinSlot slots.now amounts.now }
    ensures { result ≡ sum_along slot_gain slots.now amounts.now }
{
    let mut total = 0;
    for (i, slot) in slots.iter().enumerate() {
        total += gain_of(*slot, amounts[i]);
    }
    total
}

/// How much less a slot may put in.
pub fn room_below(slot: Slot, amount: i64) -> i64
    requires within { IsWithinSlot slot amount }
    requires small { IsSmallSlot slot }
    ensures { result ≡ amount -ℤ slot.low }
{
    amount - slot.low
}

/// How much more a slot may put in.
pub fn room_above(slot: Slot, amount: i64) -> i64
    requires within { IsWithinSlot slot amount }
    requires small { IsSmallSlot slot }
    ensures { result ≡ slot.high -ℤ amount }
{
    slot.high - amount
}

/// What gives a zone the MW that it is short of, at a price beyond every order's, or takes away what it has too much.
pub fn stand_in(zone: u32, short: i64) -> Slot
    ensures { result ≡ stand_in_of zone short }
{
    if short < 0 {
        Slot {
            zone,
            price: -BEYOND,
            low: short,
            high: 0,
        }
    } else {
        Slot {
            zone,
            price: BEYOND,
            low: 0,
            high: short,
        }
    }
}

/// What an order may put into its zone within bounds, in MW.
pub fn slot_from(order: &Order, least: u32, greatest: u32) -> Slot
    ensures { (s : Span) → s.lo ≡ least → s.hi ≡ greatest → result ≡ slot_of s order.now }
{
    match order.side {
        Side::Inject => Slot {
            zone: order.zone,
            price: order.price.0,
            low: i64::from(least),
            high: i64::from(greatest),
        },
        Side::Withdraw => Slot {
            zone: order.zone,
            price: order.price.0,
            low: -i64::from(greatest),
            high: -i64::from(least),
        },
    }
}

/// The slots of orders within the bounds of a prefix, with room for one more for each zone.
pub fn order_slots(alloc: Global, market: &Market, prefix: &Prefix) -> Result<Vec<Slot>, AllocError>
    requires market { IsValid market.now }
    requires prefix { IsFeasiblePrefix market.now prefix.now }
    ensures slots { IfOk result (λ v. v.items ≡ slots_of (bounds_at market.now prefix.now) market.now.orders) }
    ensures fine { IfOk result (λ v. AreOrderSlots market.now.zones market.now.orders v.items) }
{
    let states = states_at(market, prefix);
    let orders = market.orders.as_slice();
    let mut slots = Vec::with_capacity(alloc, orders.len() + MOST_ZONES)?;
    for order in orders {
        let (least, greatest) = states.span(order);
        slots.push(slot_from(order, least, greatest))?;
    }
    Ok(slots)
}
