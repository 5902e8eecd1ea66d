//! Values that spread from zone to zone along borders.

ghost use Rattle.std.specs.Prelude.{◌≡◌, ◌⊎◌, ◌≤◌, ◌<◌, ◌≤ℤ◌, true, length, Some, IfOk, MatchOption, IfSome};
ghost use Rattle.std.specs.Option.{IfNone};
ghost use Rattle.std.specs.List.{All};
ghost use Rattle.mari_market.specs.Along.{LeadsTo};
ghost use Rattle.mari_market.specs.Market.{IsBetween};
ghost use Rattle.mari_market.specs.Sums.{int_at};
ghost use Rattle.mari_prices.specs.Spread.{AreFirstBorders, AreShort, IsGreatestBefore, IsLed, IsLedOver, IsNext, IsNotPassed, IsPassed, NoneFreeBefore, NoneOver, NoneOverBefore, SpreadsAlong};

use mari_market::{Along, Border};
use mari_units::MOST_ZONES;
use std::alloc::{AllocError, Global};

/// What a zone gets.
#[derive(Clone, Copy, Drop)]
pub(crate) struct SettledZone {
    /// The value.
    pub(crate) value: i64,
    /// The zone before it, if another zone led to it.
    pub(crate) previous: Option<u32>,
    /// How many zones the chain to it has.
    pub(crate) depth: u32,
}

/// A zone to settle next.
#[derive(Clone, Copy, Drop)]
struct NextZone {
    /// Its number.
    zone: u32,
    /// What it gets.
    entry: SettledZone,
    /// The border that leads to it, from 0, or the number of borders: none before leads to a free zone.
    border: usize,
}

/// What the second zone gets from the first, if that is settled and the second is free.
fn passed_on(settled: &[Option<SettledZone>], from: u32, to: u32) -> Option<SettledZone>
    requires from { from < length settled.now }
    requires to { to < length settled.now }
    requires short { AreShort settled.now }
    ensures { MatchOption result (IsNotPassed settled.now from to) (IsPassed settled.now from to) }
{
    if settled[to as usize].is_some() {
        return None;
    }
    match settled[from as usize] {
        Some(before) => Some(SettledZone {
            value: before.value,
            previous: Some(from),
            depth: before.depth + 1,
        }),
        None => None,
    }
}

/// The same, if the border leads that way.
fn led(leads: bool, settled: &[Option<SettledZone>], from: u32, to: u32) -> Option<SettledZone>
    requires from { from < length settled.now }
    requires to { to < length settled.now }
    requires short { AreShort settled.now }
    ensures none { IfNone result (leads ≡ true → IsNotPassed settled.now from to) }
    ensures some { IfSome result (λ s. (leads ≡ true) × IsPassed settled.now from to s) }
{
    if leads {
        passed_on(settled, from, to)
    } else {
        None
    }
}

/// A free zone to which the border leads from a settled one, and what it gets.
fn led_over(
    settled: &[Option<SettledZone>],
    border: &Border,
    flow: i64,
    along: Along,
) -> Option<(u32, SettledZone)>
    requires from { border.now.from < length settled.now }
    requires to { border.now.to < length settled.now }
    requires short { AreShort settled.now }
    ensures none { IfNone result (NoneOver along settled.now border.now flow) }
    ensures some { IfSome result (λ p. IsLedOver along settled.now border.now flow p.0 p.1) }
{
    if settled[border.from as usize].is_some() == settled[border.to as usize].is_some() {
        return None;
    }
    match led(
        along.leads_on(border, flow),
        settled,
        border.from,
        border.to,
    ) {
        Some(entry) => Some((border.to, entry)),
        None => match led(
            along.leads_back(border, flow),
            settled,
            border.to,
            border.from,
        ) {
            Some(entry) => Some((border.from, entry)),
            None => None,
        },
    }
}

/// A free zone to which some border leads from a settled one, and what it gets. No border before the one given does.
fn next_led(
    settled: &[Option<SettledZone>],
    borders: &[Border],
    flow: &[i64],
    along: Along,
    first: usize,
) -> Option<NextZone>
    // The borders, and what is settled so far.
    requires lengths { length flow.now ≡ length borders.now }
    requires ends { All (IsBetween (length settled.now)) borders.now }
    requires short { AreShort settled.now }

    // The border to begin with.
    requires first { first ≤ length borders.now }
    requires before { NoneOverBefore along borders.now flow.now settled.now first }

    // That no border leads to a free zone, or the first that does.
    ensures none { IfNone result (NoneOverBefore along borders.now flow.now settled.now (length borders.now)) }
    ensures some { IfSome result (λ n. IsLed (LeadsTo along borders.now flow.now) settled.now n.zone n.entry) }
    ensures border { IfSome result (λ n. n.border ≤ length borders.now) }
    ensures before { IfSome result (λ n. NoneOverBefore along borders.now flow.now settled.now n.border) }
{
    for i in first..borders.len() {
        if let Some((zone, entry)) = led_over(settled, &borders[i], flow[i], along) {
            return Some(NextZone {
                zone,
                entry,
                border: i,
            });
        }
    }
    None
}

/// The zone of the greater value, where there are two.
fn greater(values: &[i64], best: Option<u32>, zone: u32) -> u32
    requires zone { zone < length values.now }
    requires best { IfSome best (λ z. z < length values.now) }
    ensures one { (result ≡ zone) ⊎ (best ≡ Some result) }
    ensures zone { int_at values.now zone ≤ℤ int_at values.now result }
    ensures best { IfSome best (λ z. int_at values.now z ≤ℤ int_at values.now result) }
{
    match best {
        Some(best) if values[best as usize] >= values[zone as usize] => best,
        _ => zone,
    }
}

/// The free zone of the greatest value.
fn greatest_free(settled: &[Option<SettledZone>], values: &[i64]) -> Option<u32>
    requires lengths { length values.now ≡ length settled.now }
    requires few { length settled.now ≤ MOST_ZONES }
    ensures { MatchOption result (NoneFreeBefore (length settled.now) settled.now) (IsGreatestBefore (length settled.now) (int_at values.now) settled.now) }
{
    let mut best = None;
    for (zone, entry) in settled.iter().enumerate() {
        if entry.is_none() {
            best = Some(greater(values, best, zone as u32));
        }
    }
    best
}

/// The next zone to settle, and what it gets.
fn next(
    settled: &[Option<SettledZone>],
    values: &[i64],
    borders: &[Border],
    flow: &[i64],
    along: Along,
    first: usize,
) -> Option<NextZone>
    // The zones, and the borders between them.
    requires values { length values.now ≡ length settled.now }
    requires lengths { length flow.now ≡ length borders.now }
    requires ends { All (IsBetween (length settled.now)) borders.now }
    requires few { length settled.now ≤ MOST_ZONES }

    // What is settled so far, and the border to begin with.
    requires short { AreShort settled.now }
    requires first { first ≤ length borders.now }
    requires before { NoneOverBefore along borders.now flow.now settled.now first }

    // That all are settled, or which is next.
    ensures none { IfNone result (NoneFreeBefore (length settled.now) settled.now) }
    ensures some { IfSome result (λ n. IsNext (LeadsTo along borders.now flow.now) (int_at values.now) settled.now n.zone n.entry) }
    ensures border { IfSome result (λ n. n.border ≤ length borders.now) }
    ensures before { IfSome result (λ n. NoneOverBefore along borders.now flow.now settled.now n.border) }
{
    if let Some(next) = next_led(settled, borders, flow, along, first) {
        return Some(next);
    }
    match greatest_free(settled, values) {
        Some(zone) => Some(NextZone {
            zone,
            entry: SettledZone {
                value: values[zone as usize],
                previous: None,
                depth: 1,
            },
            border: borders.len(),
        }),
        None => None,
    }
}

/// Each zone's first border, or the number of borders where it has none.
fn first_borders(alloc: Global, zones: usize, borders: &[Border]) -> Result<Vec<usize>, AllocError>
    requires ends { All (IsBetween zones) borders.now }
    ensures one_each { IfOk result (λ v. length v.items ≡ zones) }
    ensures firsts { IfOk result (λ v. AreFirstBorders borders.now zones v.items) }
{
    let mut firsts = vec![in alloc; borders.len(); zones]?;
    for (i, border) in borders.iter().enumerate() {
        let (from, to) = (border.from as usize, border.to as usize);
        firsts[from] = firsts[from].min(i);
        firsts[to] = firsts[to].min(i);
    }
    Ok(firsts)
}

/// For each zone the greatest of its own value and of the values of all zones from which borders lead to it.
///
/// Zones are settled one by one, from the greatest value down, each by the first border that leads to a free one. Once
/// a zone is settled, only borders from its first one on may newly lead to a free zone, so the search goes on there.
/// Time is that of zones times borders and zones.
pub(crate) fn spread(
    alloc: Global,
    values: &[i64],
    borders: &[Border],
    flow: &[i64],
    along: Along,
) -> Result<Vec<Option<SettledZone>>, AllocError>
    requires few { length values.now ≤ MOST_ZONES }
    requires lengths { length flow.now ≡ length borders.now }
    requires ends { All (IsBetween (length values.now)) borders.now }
    ensures one_each { IfOk result (λ v. length v.items ≡ length values.now) }
    ensures spread { IfOk result (λ v. SpreadsAlong along borders.now flow.now values.now v.items) }
{
    let firsts = first_borders(alloc, values.len(), borders)?;
    let mut settled = vec![in alloc; None; values.len()]?;
    let mut first = 0;
    while let Some(next) = next(&settled, values, borders, flow, along, first) {
        settled[next.zone as usize] = Some(next.entry);
        first = next.border.min(firsts[next.zone as usize]);
    }
    Ok(settled)
}
