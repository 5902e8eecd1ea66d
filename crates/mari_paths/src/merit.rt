//! What runs where no activation is given: in each zone the slots that cost less than one price for the whole market,
//! or more or fewer of them where its borders can't carry what that leaves over or lacks.
//!
//! The clauses say what price it is and which slots run at it. No clause says how near to an optimum that is, and no
//! promise rests on it.

ghost use Rattle.std.specs.Prelude.{◌<◌, ◌≤◌, ◌≡◌, ◌≢◌, ◌+ℤ◌, ◌-ℤ◌, ◌≤ℤ◌, ℕ, ℤ, pos, List, length, slice_set, IfOk};
ghost use Rattle.std.specs.Int.{int_min};
ghost use Rattle.std.specs.List.{All, AllZip};
ghost use Rattle.mari_market.specs.Market.{IsBetween, IsValid};
ghost use Rattle.mari_market.specs.Sums.{int_at};
ghost use Rattle.mari_market.specs.declared.market.Border.{Border as BorderRecord};
ghost use Rattle.mari_network.specs.Slots.{slot_at, IsWithinSlot};
ghost use Rattle.mari_paths.specs.Merit.{as_carried, least_of, most_carried, reach_at, supplied, widened, AreLadders, IsByMerit, IsCurve, IsCurveOf, IsMeritOrder, IsOrderRange, IsReach, IsReachOf, RunsAt};
ghost use Rattle.mari_paths.specs.Starts.{most_moved, AreSmallLimits};

use crate::curves::{Curve, balancing_price, curve_of, supply_at};
use mari_market::{Border, Market};
use mari_network::{Rung, Slot};
use mari_units::MOST_BORDERS;
use std::alloc::{AllocError, Global};

/// What a zone's borders can carry out of it and into it, together, in MW.
#[derive(Clone, Copy, Drop)]
pub struct Reach {
    /// Out of it.
    pub out: i64,
    /// Into it.
    pub into: i64,
}

/// Adds what one border can carry out of a zone and into it.
fn widen(reaches: &mut [Reach], zone: usize, out: u32, into: u32)
    requires zone { zone < length reaches.old }
    requires out { out ≤ most_moved }
    requires into { into ≤ most_moved }
    requires before { IsReach most_carried (reach_at reaches.old zone) }
    ensures { reaches.new ≡ slice_set reaches.old zone (widened (reach_at reaches.old zone) out into) }
{
    let now = reaches[zone];
    reaches[zone] = Reach {
        out: now.out + i64::from(out),
        into: now.into + i64::from(into),
    };
}

/// Adds what borders can carry out of each zone and into it.
fn widen_all(reaches: &mut [Reach], borders: &[Border])
    requires few { length borders.now ≤ MOST_BORDERS }
    requires ends { All (IsBetween (length reaches.old)) borders.now }
    requires limits { All AreSmallLimits borders.now }
    requires none { All (IsReach 0) reaches.old }
    ensures reaches { All (IsReach most_carried) reaches.new }
    ensures each { (z : ℕ) → z < length reaches.new → IsReachOf borders.now z (reach_at reaches.new z) }
{
    for border in borders {
        widen(reaches, border.from as usize, border.limit, border.back);
        widen(reaches, border.to as usize, border.back, border.limit);
    }
}

/// What the borders of each zone can carry out of it and into it.
fn reaches_of(alloc: Global, market: &Market) -> Result<Vec<Reach>, AllocError>
    requires { IsValid market.now }
    ensures long { IfOk result (λ v. length v.items ≡ market.now.zones) }
    ensures reaches { IfOk result (λ v. All (IsReach most_carried) v.items) }
    ensures each { IfOk result (λ v. (z : ℕ) → z < market.now.zones → IsReachOf market.now.borders z (reach_at v.items z)) }
{
    let none = Reach { out: 0, into: 0 };
    let mut reaches = vec![in alloc; none; market.zones as usize]?;
    widen_all(&mut reaches, market.borders.as_slice());
    Ok(reaches)
}

/// How much more than their least a zone's slots are to put in at a price, as far as borders can carry what that leaves
/// over or lacks.
fn more_at(curve: &Curve, reach: Reach, price: i64) -> i64
    requires curve { IsCurve curve.now }
    requires reach { IsReach most_carried reach }
    ensures { (bs : List BorderRecord) (z : ℕ) → IsReachOf bs z reach → curve.now.least +ℤ result ≡ as_carried bs z (supplied price curve.now) }
{
    supply_at(curve, price).clamp(-reach.into, reach.out) - curve.least
}

/// The supply curve of each zone.
fn curves_of(alloc: Global, slots: &[Slot], ladders: &[Vec<Rung>]) -> Result<Vec<Curve>, AllocError>
    requires slots { All IsOrderRange slots.now }
    requires ladders { AreLadders slots.now ladders.now }
    ensures curves { IfOk result (λ v. All IsCurve v.items) }
    ensures each { IfOk result (λ v. AllZip (λ ladder curve. IsCurveOf slots.now ladder.items curve) ladders.now v.items) }
{
    let mut curves = Vec::with_capacity(alloc, ladders.len())?;
    for ladder in ladders {
        curves.push(curve_of(alloc, slots, ladder.as_slice())?)?;
    }
    Ok(curves)
}

/// The least of each slot.
fn least_amounts(alloc: Global, slots: &[Slot]) -> Result<Vec<i64>, AllocError>
    requires slots { All IsOrderRange slots.now }
    ensures within { IfOk result (λ v. AllZip IsWithinSlot slots.now v.items) }
    ensures least { IfOk result (λ v. (k : ℕ) → k < length slots.now → int_at v.items k ≡ (slot_at slots.now k).low) }
{
    let mut amounts = Vec::with_capacity(alloc, slots.len())?;
    for slot in slots {
        amounts.push(slot.low)?;
    }
    Ok(amounts)
}

/// How much more than its least a slot may put in, of what is left.
fn part_of(slot: Slot, left: i64) -> i64
    requires range { IsOrderRange slot }
    requires left { pos 0 ≤ℤ left }
    ensures some { pos 0 ≤ℤ result }
    ensures part { result ≡ int_min left (slot.high -ℤ slot.low) }
    ensures within { IsWithinSlot slot (slot.low +ℤ result) }
{
    left.min(slot.high - slot.low)
}

/// Lets the cheapest slots of a ladder put in so much more than their least, together.
fn run_cheapest(slots: &[Slot], ladder: &[Rung], more: i64, amounts: &mut [i64])
    requires slots { All IsOrderRange slots.now }
    requires ladder { IsMeritOrder slots.now ladder.now }
    requires within { AllZip IsWithinSlot slots.now amounts.old }
    requires least { All (λ r. int_at amounts.old r.place ≡ (slot_at slots.now r.place).low) ladder.now }
    ensures within { AllZip IsWithinSlot slots.now amounts.new }
    ensures merit { IsByMerit slots.now ladder.now (least_of slots.now ladder.now +ℤ more) amounts.new }
    ensures others { (k : ℕ) → All (λ r. r.place ≢ k) ladder.now → int_at amounts.new k ≡ int_at amounts.old k }
{
    let mut left = more;
    for rung in ladder {
        if left <= 0 {
            return;
        }
        let slot = slots[rung.place];
        let part = part_of(slot, left);
        amounts[rung.place] = slot.low + part;
        left -= part;
    }
}

/// What the slots of a market's orders put in at one price, as far as its borders can carry what that leaves over or
/// lacks in a zone.
pub fn amounts_by_price(
    alloc: Global,
    market: &Market,
    slots: &[Slot],
    ladders: &[Vec<Rung>],
) -> Result<Vec<i64>, AllocError>
    requires market { IsValid market.now }
    requires slots { All IsOrderRange slots.now }
    requires long { length ladders.now ≡ market.now.zones }
    requires ladders { AreLadders slots.now ladders.now }
    ensures within { IfOk result (λ v. AllZip IsWithinSlot slots.now v.items) }
    ensures price { IfOk result (λ v. (p : ℤ) × RunsAt market.now slots.now ladders.now v.items p) }
{
    let curves = curves_of(alloc, slots, ladders)?;
    let price = balancing_price(&curves);
    let reaches = reaches_of(alloc, market)?;
    let mut amounts = least_amounts(alloc, slots)?;
    for (zone, curve) in curves.iter().enumerate() {
        let more = more_at(curve, reaches[zone], price);
        run_cheapest(slots, &ladders[zone], more, &mut amounts);
    }
    Ok(amounts)
}
