//! The margins of the orders without a gate, which are the same at every prefix, and those of all orders.

ghost use Rattle.std.specs.Prelude.{length, IfOk};
ghost use Rattle.mari_market.specs.Market.{IsValid};
ghost use Rattle.mari_network.specs.Margins.{AreMargins, AreMarginsOfThese};
ghost use Rattle.mari_paths.specs.Starts.{AreFilled};
ghost use Rattle.mari_paths.specs.Warm.{AreGated, IsPlain};

use mari_market::Market;
use mari_network::{Margin, Slot, add_to_margin};
use std::alloc::{AllocError, Global};

/// The margin of each zone among the orders without a gate.
pub fn plain_margins(
    alloc: Global,
    market: &Market,
    slots: &[Slot],
    amounts: &[i64],
) -> Result<Vec<Margin>, AllocError>
    requires market { IsValid market.now }
    requires filled { AreFilled market.now slots.now amounts.now }
    ensures { IfOk result (λ v. AreMarginsOfThese (IsPlain market.now) slots.now amounts.now market.now.zones v.items) }
{
    let none = Margin {
        dearest: None,
        cheapest: None,
    };
    let mut margins = vec![in alloc; none; market.zones as usize]?;
    let orders = market.orders.as_slice();
    for (i, order) in orders.iter().enumerate() {
        if order.gate.is_none() {
            add_to_margin(slots, amounts, &mut margins, i);
        }
    }
    Ok(margins)
}

/// Adds the orders of gates, which are at these places, to the margins of the orders without a gate.
pub fn complete_margins(
    market: &Market,
    gated: &[usize],
    slots: &[Slot],
    amounts: &[i64],
    margins: &mut [Margin],
)
    requires gated { AreGated market.now gated.now }
    requires filled { AreFilled market.now slots.now amounts.now }
    requires margins { AreMarginsOfThese (IsPlain market.now) slots.now amounts.now market.now.zones margins.old }
    ensures { AreMargins slots.now amounts.now market.now.zones (length market.now.orders) margins.new }
{
    for place in gated {
        add_to_margin(slots, amounts, margins, *place);
    }
}
