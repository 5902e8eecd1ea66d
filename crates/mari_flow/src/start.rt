//! What the plain solver starts from: each slot at its least, and what stands in for that.

ghost use Rattle.std.specs.Prelude.{◌≡◌, pos, neg_ℤ, ◌≤ℤ◌, ◌++◌, IfOk};
ghost use Rattle.std.specs.List.{All};
ghost use Rattle.mari_network.specs.Slots.{IsSmallSlot, most_room};
ghost use Rattle.mari_flow.specs.Starts.{lows, offsets, stand_in_for as stand_in_for_slot, stand_ins_for};

use mari_network::{Slot, stand_in};
use std::alloc::{AllocError, Global};

/// What stands in for the least that a slot puts in.
fn stand_in_for(slot: Slot) -> Slot
    requires low { neg_ℤ (pos most_room) ≤ℤ slot.low }
    requires high { slot.low ≤ℤ pos most_room }
    ensures { result ≡ stand_in_for_slot slot }
{
    stand_in(slot.zone, -slot.low)
}

/// The slots, and what stands in for the least that each puts in.
pub fn with_stand_ins(alloc: Global, slots: &[Slot]) -> Result<Vec<Slot>, AllocError>
    requires small { All IsSmallSlot slots.now }
    requires order { All (λ s. s.low ≤ℤ s.high) slots.now }
    ensures { IfOk result (λ v. v.items ≡ slots.now ++ stand_ins_for slots.now) }
{
    let mut all = Vec::new(alloc);
    for slot in slots {
        all.push(*slot)?;
    }
    for slot in slots {
        all.push(stand_in_for(*slot))?;
    }
    Ok(all)
}

/// The first amounts of slots and of what stands in for them.
pub fn first_amounts(alloc: Global, slots: &[Slot]) -> Result<Vec<i64>, AllocError>
    requires small { All IsSmallSlot slots.now }
    requires order { All (λ s. s.low ≤ℤ s.high) slots.now }
    ensures { IfOk result (λ v. v.items ≡ lows slots.now ++ offsets slots.now) }
{
    let mut amounts = Vec::new(alloc);
    for slot in slots {
        amounts.push(slot.low)?;
    }
    for slot in slots {
        amounts.push(-slot.low)?;
    }
    Ok(amounts)
}
