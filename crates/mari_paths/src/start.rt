//! What a solve starts from: the quantities and flows of an activation, moved within their limits, or what runs at one
//! price; and what stands in for what they leave out of balance.
//!
//! The clauses say that what runs lies within the slots and limits, and without an activation that the slots run at one
//! price. No clause says that it is the nearest there to the activation, and no promise rests on that. The slots of
//! orders are the real ones, as against those that stand in.

ghost use Rattle.std.specs.Prelude.{◌≡◌, ◌<◌, ◌≤◌, ℕ, ℤ, pos, neg_ℤ, ◌+ℤ◌, ◌-ℤ◌, ◌++◌, length, slice_set, take, IfOk, OnOk, None};
ghost use Rattle.std.specs.List.{All, AllZip};
ghost use Rattle.mari_market.specs.Sums.{sum_along, int_at};
ghost use Rattle.mari_market.specs.Activation.{IsWithinLimits, carried_out, put_in};
ghost use Rattle.mari_market.specs.Market.{IsValid, IsBetween};
ghost use Rattle.mari_network.specs.Network.{ArePlaces};
ghost use Rattle.mari_network.specs.Orders.{IsOrderSlot, AreOrderSlots};
ghost use Rattle.mari_network.specs.Slots.{slot_into, IsSmallSlot, IsWithinSlot};
ghost use Rattle.mari_paths.specs.Merit.{RunsAt};
ghost use Rattle.mari_paths.specs.Starts.{most_halfway, most_moved, most_put_in, most_short, stand_ins, IsInOrder, IsNear, AreEven, AreFilled, AreSmallLimits, AreShort, StandInsNear};

use crate::merit::amounts_by_price;
use mari_market::{Activation, Border, MOST_ORDERS, Market, Order, Side};
use mari_network::{Places, Slot, stand_in};
use mari_units::{MOST_BORDERS, MOST_ZONES};
use std::alloc::{AllocError, Global};

/// The amount that a slot may put in which is nearest to this one.
pub fn nearest_within(slot: Slot, amount: i64) -> i64
    requires order { IsInOrder slot }
    requires small { IsSmallSlot slot }
    ensures { IsWithinSlot slot result }
{
    amount.clamp(slot.low, slot.high)
}

/// What an order of this side puts in at a quantity, in MW.
fn put(side: Side, mw: u32) -> i64
    ensures { result ≡ put_in side mw }
{
    match side {
        Side::Inject => i64::from(mw),
        Side::Withdraw => -i64::from(mw),
    }
}

/// What the slots of orders put in, as near to these quantities as they may.
fn amounts_near(
    alloc: Global,
    slots: &[Slot],
    orders: &[Order],
    mw: &[u32],
) -> Result<Vec<i64>, AllocError>
    requires orders { length orders.now ≡ length slots.now }
    requires mw { length mw.now ≡ length slots.now }
    requires order { All IsInOrder slots.now }
    requires small { All IsSmallSlot slots.now }
    ensures within { IfOk result (λ v. AllZip IsWithinSlot slots.now v.items) }
{
    let mut amounts = Vec::with_capacity(alloc, slots.len())?;
    for (i, slot) in slots.iter().enumerate() {
        amounts.push(nearest_within(*slot, put(orders[i].side, mw[i])))?;
    }
    Ok(amounts)
}

/// The flow within a border's limits that is nearest to this one.
fn flow_near(border: &Border, flow: i64) -> i64
    ensures { IsWithinLimits border.now result }
{
    flow.clamp(-i64::from(border.back), i64::from(border.limit))
}

/// The flows of borders, as near to these as their limits let them be.
fn flows_near(alloc: Global, borders: &[Border], flow: &[i64]) -> Result<Vec<i64>, AllocError>
    requires lengths { length flow.now ≡ length borders.now }
    ensures within { IfOk result (λ v. AllZip IsWithinLimits borders.now v.items) }
{
    let mut flows = Vec::with_capacity(alloc, borders.len())?;
    for (i, border) in borders.iter().enumerate() {
        flows.push(flow_near(border, flow[i]))?;
    }
    Ok(flows)
}

/// Adds to what a zone is short of.
fn add_at(short: &mut [i64], zone: usize, more: i64)
    requires zone { zone < length short.old }
    requires before { IsNear most_halfway (int_at short.old zone) }
    requires more { IsNear most_moved more }
    ensures { short.new ≡ slice_set short.old zone (int_at short.old zone +ℤ more) }
{
    let now = short[zone];
    short[zone] = now + more;
}

/// Takes from what a zone is short of.
fn take_at(short: &mut [i64], zone: usize, less: i64)
    requires zone { zone < length short.old }
    requires before { IsNear most_halfway (int_at short.old zone) }
    requires less { IsNear most_moved less }
    ensures { short.new ≡ slice_set short.old zone (int_at short.old zone -ℤ less) }
{
    let now = short[zone];
    short[zone] = now - less;
}

/// Adds to what zones are short of what a border carries out of them.
fn carry_out(short: &mut [i64], border: &Border, flow: i64)
    requires ends { IsBetween (length short.old) border.now }
    requires near { (z : ℕ) → IsNear most_short (int_at short.old z) }
    requires flow { IsNear most_moved flow }
    ensures long { length short.new ≡ length short.old }
    ensures each { (z : ℕ) → int_at short.new z ≡ int_at short.old z +ℤ carried_out z border.now flow }
{
    add_at(short, border.from as usize, flow);
    take_at(short, border.to as usize, flow);
}

/// Takes from what each zone is short of what its slots put in.
fn take_amounts(short: &mut [i64], slots: &[Slot], amounts: &[i64])
    // What runs in slots of orders, where no zone is short yet.
    requires few { length slots.now ≤ MOST_ORDERS }
    requires slots { All (IsOrderSlot (length short.old)) slots.now }
    requires within { AllZip IsWithinSlot slots.now amounts.now }
    requires none { (z : ℕ) → int_at short.old z ≡ pos 0 }

    // What each zone is short of then, and that flows can still be added.
    ensures long { length short.new ≡ length short.old }
    ensures near { (z : ℕ) → IsNear most_put_in (int_at short.new z) }
    ensures each { (z : ℕ) → int_at short.new z ≡ neg_ℤ (sum_along (slot_into z) slots.now amounts.now) }
{
    for (i, slot) in slots.iter().enumerate() {
        take_at(short, slot.zone as usize, amounts[i]);
    }
}

/// Adds to what each zone is short of what its borders carry out.
fn add_flows(short: &mut [i64], borders: &[Border], flows: &[i64])
    // Flows that may be.
    requires few { length borders.now ≤ MOST_BORDERS }
    requires ends { All (IsBetween (length short.old)) borders.now }
    requires limits { All AreSmallLimits borders.now }
    requires within { AllZip IsWithinLimits borders.now flows.now }

    // What the slots left.
    requires near { (z : ℕ) → IsNear most_put_in (int_at short.old z) }

    // What each zone is short of then, and that no number runs over.
    ensures long { length short.new ≡ length short.old }
    ensures near { (z : ℕ) → IsNear most_short (int_at short.new z) }
    ensures each { (z : ℕ) → int_at short.new z ≡ int_at short.old z +ℤ sum_along (carried_out z) borders.now flows.now }
{
    for (i, border) in borders.iter().enumerate() {
        carry_out(short, border, flows[i]);
    }
}

/// What each zone is short of where nothing flows.
fn shortages_alone(
    alloc: Global,
    market: &Market,
    slots: &[Slot],
    amounts: &[i64],
) -> Result<Vec<i64>, AllocError>
    requires market { IsValid market.now }
    requires slots { AreOrderSlots market.now.zones market.now.orders slots.now }
    requires within { AllZip IsWithinSlot slots.now amounts.now }
    ensures long { IfOk result (λ v. length v.items ≡ market.now.zones) }
    ensures near { IfOk result (λ v. (z : ℕ) → IsNear most_put_in (int_at v.items z)) }
    ensures each { IfOk result (λ v. (z : ℕ) → int_at v.items z ≡ neg_ℤ (sum_along (slot_into z) slots.now amounts.now)) }
{
    let mut short = vec![in alloc; 0i64; market.zones as usize]?;
    take_amounts(&mut short, slots, amounts);
    Ok(short)
}

/// What each zone is short of: what its borders carry out, less what its slots put in.
pub fn shortages(
    alloc: Global,
    market: &Market,
    slots: &[Slot],
    amounts: &[i64],
    flows: &[i64],
) -> Result<Vec<i64>, AllocError>
    requires market { IsValid market.now }
    requires slots { AreOrderSlots market.now.zones market.now.orders slots.now }
    requires amounts { AllZip IsWithinSlot slots.now amounts.now }
    requires flows { AllZip IsWithinLimits market.now.borders flows.now }
    ensures near { IfOk result (λ v. (z : ℕ) → IsNear most_short (int_at v.items z)) }
    ensures short { IfOk result (λ v. AreShort market.now.zones slots.now market.now.borders amounts.now flows.now v.items) }
{
    let mut short = shortages_alone(alloc, market, slots, amounts)?;
    add_flows(&mut short, market.borders.as_slice(), flows);
    Ok(short)
}

/// The flow over a border from an end that has too much to one that is short, as much as is good for both. No clause
/// says so.
fn flow_between(border: &Border, from_short: i64, to_short: i64) -> i64
    requires from { IsNear most_short from_short }
    requires to { IsNear most_short to_short }
    ensures { IsWithinLimits border.now result }
{
    let forth = to_short.min(-from_short).max(0);
    let back = from_short.min(-to_short).max(0);
    flow_near(border, forth - back)
}

/// Flows by which zones that have too much make up for what their neighbours are short of, border by border.
fn flows_between(
    alloc: Global,
    borders: &[Border],
    short: &mut [i64],
) -> Result<Vec<i64>, AllocError>
    // Borders, and what each zone is short of where nothing flows.
    requires few { length borders.now ≤ MOST_BORDERS }
    requires ends { All (IsBetween (length short.old)) borders.now }
    requires limits { All AreSmallLimits borders.now }
    requires near { (z : ℕ) → IsNear most_put_in (int_at short.old z) }
    ensures within { IfOk result (λ v. AllZip IsWithinLimits borders.now v.items) }
{
    let mut flows = Vec::with_capacity(alloc, borders.len())?;
    for border in borders {
        let (from, to) = (border.from as usize, border.to as usize);
        let flow = flow_between(border, short[from], short[to]);
        carry_out(short, border, flow);
        flows.push(flow)?;
    }
    Ok(flows)
}

/// What the orders' slots put in and what flows at the start: as near to an activation as may be, if one is given that
/// fits the market, and else what runs at one price for the whole market, as far as borders let it, with flows between
/// neighbours.
pub fn first_run(
    alloc: Global,
    market: &Market,
    slots: &[Slot],
    places: &Places,
    start: Option<&Activation>,
) -> Result<(Vec<i64>, Vec<i64>), AllocError>
    requires market { IsValid market.now }
    requires slots { AreOrderSlots market.now.zones market.now.orders slots.now }
    requires places { ArePlaces market.now.zones slots.now market.now.borders places.now }
    requires on_ladders { places.now.on_ladders ≡ length market.now.orders }
    requires order { All IsInOrder slots.now }
    requires small { All IsSmallSlot slots.now }
    ensures amounts { IfOk result (λ r. AllZip IsWithinSlot slots.now r.0.items) }
    ensures price { start.entry ≡ None → IfOk result (λ r. (p : ℤ) × RunsAt market.now slots.now places.now.ladders.items r.0.items p) }
    ensures flows { IfOk result (λ r. AllZip IsWithinLimits market.now.borders r.1.items) }
{
    let borders = market.borders.as_slice();
    match start {
        Some(activation) if market.has_lengths(activation) => {
            let orders = market.orders.as_slice();
            let amounts = amounts_near(alloc, slots, orders, activation.mw.as_slice())?;
            let flows = flows_near(alloc, borders, activation.flow.as_slice())?;
            Ok((amounts, flows))
        }
        _ => {
            let ladders = places.ladders.as_slice();
            let amounts = amounts_by_price(alloc, market, slots, ladders)?;
            let mut short = shortages_alone(alloc, market, slots, &amounts)?;
            let flows = flows_between(alloc, borders, &mut short)?;
            Ok((amounts, flows))
        }
    }
}

/// The slots with a stand-in for each zone, and the amounts with what these put in.
pub fn add_stand_ins(
    slots: &mut Vec<Slot>,
    amounts: &mut Vec<i64>,
    short: &[i64],
) -> Result<(), AllocError>
    requires few { length short.now ≤ MOST_ZONES }
    ensures slots { OnOk result (slots.new.items ≡ slots.old.items ++ stand_ins 0 short.now) }
    ensures amounts { OnOk result (amounts.new.items ≡ amounts.old.items ++ short.now) }
{
    for (zone, amount) in short.iter().enumerate() {
        slots.push(stand_in(zone as u32, *amount))?;
        amounts.push(*amount)?;
    }
    Ok(())
}

/// The slots of a market's orders and of what stands in for each zone, and what runs in them, in balance.
#[derive(Drop)]
pub struct Start {
    /// The orders' slots, and then those that stand in.
    pub slots: Vec<Slot>,
    /// What each slot puts in, in MW.
    pub amounts: Vec<i64>,
    /// What flows over each border, in MW.
    pub flows: Vec<i64>,
}

/// What runs where the orders may run within these slots, as near to an activation as may be, if one is given.
pub fn start_from(
    alloc: Global,
    market: &Market,
    reals: Vec<Slot>,
    places: &Places,
    activation: Option<&Activation>,
) -> Result<Start, AllocError>
    requires market { IsValid market.now }
    requires reals { AreOrderSlots market.now.zones market.now.orders reals.items }
    requires places { ArePlaces market.now.zones reals.items market.now.borders places.now }
    requires on_ladders { places.now.on_ladders ≡ length market.now.orders }

    // The slots, with amounts within them.
    ensures filled { IfOk result (λ s. AreFilled market.now s.slots.items s.amounts.items) }
    ensures reals { IfOk result (λ s. take (length market.now.orders) s.slots.items ≡ reals.items) }
    ensures near { IfOk result (λ s. StandInsNear most_short market.now s.amounts.items) }
    ensures price { activation.entry ≡ None
        → IfOk result (λ s. (p : ℤ) × RunsAt market.now reals.items places.now.ladders.items (take (length market.now.orders) s.amounts.items) p) }

    // The flows, with which they are in balance.
    ensures limits { IfOk result (λ s. AllZip IsWithinLimits market.now.borders s.flows.items) }
    ensures even { IfOk result (λ s. AreEven market.now s.slots.items s.amounts.items s.flows.items) }
{
    let mut slots = reals;
    let (mut amounts, flows) = first_run(alloc, market, &slots, places, activation)?;
    let short = shortages(alloc, market, &slots, &amounts, &flows)?;
    add_stand_ins(&mut slots, &mut amounts, &short)?;
    Ok(Start {
        slots,
        amounts,
        flows,
    })
}
