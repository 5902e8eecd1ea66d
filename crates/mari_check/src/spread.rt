//! Values that spread from zone to zone along borders, until no border raises any of them.

ghost use Rattle.std.specs.Prelude.{◌≡◌, ◌<◌, true, false, length};
ghost use Rattle.std.specs.List.{All};
ghost use Rattle.mari_check.specs.Spread.{AreSmall, IsClosed, IsClosedOver, IsRaise, IsRaiseIf, IsSpread, Spreads, room_of};
ghost use Rattle.mari_market.specs.Market.{IsBetween};
ghost use Rattle.mari_market.specs.Along.{LeadsOver, LeadsTo};

use mari_market::{Along, Border};

/// Raises the second zone's value to that of the first, and answers whether it was below.
fn raise(values: &mut [u64], from: u32, to: u32) -> bool
    requires from { from < length values.old }
    requires to { to < length values.old }
    ensures { IsRaise values.old from to values.new result }
{
    let value = values[from as usize];
    if values[to as usize] >= value {
        return false;
    }
    values[to as usize] = value;
    true
}

/// The same where the first zone leads to the second.
fn raise_if(leads: bool, values: &mut [u64], from: u32, to: u32) -> bool
    requires from { from < length values.old }
    requires to { to < length values.old }
    ensures { IsRaiseIf leads values.old from to values.new result }
{
    if leads {
        raise(values, from, to)
    } else {
        false
    }
}

/// Raises the values at both ends of a border as far as it leads, and answers whether one was raised.
fn over_border(values: &mut [u64], border: &Border, flow: i64, along: Along) -> bool
    requires from { border.now.from < length values.old }
    requires to { border.now.to < length values.old }
    requires small { AreSmall values.old }
    ensures spreads { Spreads (λ y z. LeadsOver along y z border.now flow) values.old values.new }
    ensures settled { result ≡ false → (values.new ≡ values.old) × IsClosedOver along values.new border.now flow }
    ensures raised { result ≡ true → room_of values.new < room_of values.old }
{
    let on = raise_if(along.leads_on(border, flow), values, border.from, border.to);
    let back = raise_if(
        along.leads_back(border, flow),
        values,
        border.to,
        border.from,
    );
    on || back
}

/// Goes over all borders once, and answers whether a value was raised.
fn round(values: &mut [u64], borders: &[Border], flow: &[i64], along: Along) -> bool
    requires lengths { length flow.now ≡ length borders.now }
    requires ends { All (IsBetween (length values.old)) borders.now }
    requires small { AreSmall values.old }
    ensures spreads { Spreads (LeadsTo along borders.now flow.now) values.old values.new }
    ensures settled { result ≡ false → (values.new ≡ values.old) × IsClosed along values.new borders.now flow.now }
    ensures raised { result ≡ true → room_of values.new < room_of values.old }
{
    let mut raised = false;
    for (i, border) in borders.iter().enumerate() {
        if over_border(values, border, flow[i], along) {
            raised = true;
        }
    }
    raised
}

/// Raises the values until no border raises any.
fn spread_out(values: &mut [u64], borders: &[Border], flow: &[i64], along: Along)
    requires lengths { length flow.now ≡ length borders.now }
    requires ends { All (IsBetween (length values.old)) borders.now }
    requires small { AreSmall values.old }
    ensures { IsSpread (LeadsTo along borders.now flow.now) values.old values.new }
{
    'rounds: while round(values, borders, flow, along) {}
}

/// Each zone's value, raised to the greatest of the zones that lead to it, directly or through others.
///
/// It goes over the borders until a round raises nothing. No clause says that there are at most as many such rounds as
/// zones, and one more.
pub(crate) fn spread(values: Vec<u64>, borders: &[Border], flow: &[i64], along: Along) -> Vec<u64>
    requires lengths { length flow.now ≡ length borders.now }
    requires ends { All (IsBetween (length values.items)) borders.now }
    requires small { AreSmall values.items }
    ensures { IsSpread (LeadsTo along borders.now flow.now) values.items result.items }
{
    let mut spread = values;
    spread_out(&mut spread, borders, flow, along);
    spread
}
