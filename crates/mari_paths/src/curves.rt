//! Supply curves of zones, and one price for the whole market.

ghost use Rattle.std.specs.Prelude.{◌≡◌, ◌<◌, ◌≤◌, ◌≤ℤ◌, ◌<ℤ◌, ℕ, neg_ℤ, length, slice_index_or, IfOk};
ghost use Rattle.std.specs.List.{All};
ghost use Rattle.mari_network.specs.declared.slots.TheConstants.{BEYOND};
ghost use Rattle.mari_paths.specs.declared.curves.CurveStep.{CurveStep as StepRecord};
ghost use Rattle.mari_paths.specs.Merit.{supplied, supplied_by_all, AreRising, IsBalancing, IsCurve, IsCurveOf, IsMeritOrder, IsOrderRange};
ghost use Rattle.mari_paths.specs.Starts.{most_stood_in, IsNear};

use mari_network::{BEYOND, Rung, Slot};
use mari_units::MOST_ZONES;
use std::alloc::{AllocError, Global};

/// A step of a supply curve.
#[derive(Clone, Copy, Drop)]
pub struct CurveStep {
    /// The price of a slot, in cents per MWh.
    pub price: i64,
    /// How much more than their least this slot and those before it put in where they run whole, in MW.
    pub more: i64,
}

/// The supply curve of a zone: what its slots put in at each price.
#[derive(Drop)]
pub struct Curve {
    /// What they put in where each puts in its least, in MW.
    pub least: i64,
    /// A step for each slot, the cheapest first.
    pub steps: Vec<CurveStep>,
}

/// The supply curve of the slots on a ladder.
pub fn curve_of(alloc: Global, slots: &[Slot], ladder: &[Rung]) -> Result<Curve, AllocError>
    requires slots { All IsOrderRange slots.now }
    requires ladder { IsMeritOrder slots.now ladder.now }
    ensures curve { IfOk result IsCurve }
    ensures supply { IfOk result (IsCurveOf slots.now ladder.now) }
{
    let mut steps = Vec::with_capacity(alloc, ladder.len())?;
    let mut least = 0;
    let mut more = 0;
    for rung in ladder {
        let slot = slots[rung.place];
        least += slot.low;
        more += slot.high - slot.low;
        let price = rung.price;
        steps.push(CurveStep { price, more })?;
    }
    Ok(Curve { least, steps })
}

/// How many of a supply curve's steps cost less than this: the first.
fn steps_below(steps: &[CurveStep], price: i64) -> usize
    requires { AreRising steps.now }
    ensures few { result ≤ length steps.now }
    ensures below { (k : ℕ) (d : StepRecord) → k < result → (slice_index_or steps.now k d).price <ℤ price }
    ensures rest { (k : ℕ) (d : StepRecord) → result ≤ k → k < length steps.now → price ≤ℤ (slice_index_or steps.now k d).price }
{
    steps.partition_point(|step| step.price < price)
}

/// What a zone puts in where those of its slots that cost less than this run whole.
pub fn supply_at(curve: &Curve, price: i64) -> i64
    requires { IsCurve curve.now }
    ensures supply { result ≡ supplied price curve.now }
    ensures near { IsNear most_stood_in result }
{
    let steps = curve.steps.as_slice();
    match steps_below(steps, price) {
        0 => curve.least,
        count => curve.least + steps[count - 1].more,
    }
}

/// What all zones put in together where the slots that cost less than this run whole.
fn total_at(curves: &[Curve], price: i64) -> i64
    requires few { length curves.now ≤ MOST_ZONES }
    requires curves { All IsCurve curves.now }
    ensures { result ≡ supplied_by_all curves.now price }
{
    let mut total = 0;
    for curve in curves {
        total += supply_at(curve, price);
    }
    total
}

/// The price at which zones put in no more than they take together, and a cent above it more, if there is one.
pub fn balancing_price(curves: &[Curve]) -> i64
    requires few { length curves.now ≤ MOST_ZONES }
    requires curves { All IsCurve curves.now }
    ensures low { neg_ℤ BEYOND ≤ℤ result }
    ensures high { result ≤ℤ BEYOND }
    ensures balancing { IsBalancing (supplied_by_all curves.now) result }
{
    let mut price = -BEYOND;
    // How far it is from there to the greatest price.
    let mut width = 2 * BEYOND as u32;
    while width > 1 {
        let half = width / 2;
        let middle = price + i64::from(half);
        if total_at(curves, middle) > 0 {
            width = half;
        } else {
            price = middle;
            width -= half;
        }
    }
    price
}
