//! What a line comes to: it is refused, or what is held goes on.

ghost use Rattle.std.specs.Prelude.{◌≡◌, ◌∷◌, ◌++◌, [], Option, OnOk, OnErr, Ok, Err};
ghost use Rattle.mari_publish.specs.Order.{keeps, kept_with, Steps, Follows};
ghost use Rattle.mari_publish.specs.declared.held.Held.{Held as HeldValue};
ghost use Rattle.mari_publish.specs.declared.held.Kept.{Kept as KeptValue};

use crate::held::{Held, Kept};
use crate::publication::Part;
use mari_lines::Line;
use mari_units::{Items, Memory};
use std::alloc::Global;
use std::mem;

/// Why a line was not taken.
#[derive(Clone, Copy)]
pub enum FollowFault {
    /// It may not stand here.
    OutOfOrder,
    /// Out of memory.
    Memory,
}

impl From<Memory> for FollowFault {
    ghost use Rattle.std.specs.Prelude.{◌≡◌};
    ghost use Rattle.mari_publish.specs.declared.follow.step.FollowFault.TheVariants.{Memory as NoMemory};

    ghost from_gives = { λ _ e. e ≡ NoMemory };

    fn from(_: Memory) -> Self {
        FollowFault::Memory
    }
}

/// Appends an item. When out of memory the list stays as it is.
pub fn push<T: Drop>(alloc: Global, items: &mut Items<T>, item: T) -> Result<(), Memory>
    ensures pushed { OnOk result (items.new ≡ items.old ++ item ∷ []) }
    ensures same { OnErr result (items.new ≡ items.old) }
{
    let mut list = mem::replace(items, empty(alloc)).into_vec();
    let pushed = list.push(item).is_ok();
    *items = Items::of(list);
    if pushed { Ok(()) } else { Err(Memory) }
}

/// An empty list.
pub fn empty<T>(alloc: Global) -> Items<T>
    ensures { result ≡ [] }
{
    Items::of(Vec::new(alloc))
}

/// Holds this from now on, with the same counts. What was held is let go of here alone, so that this is proved once:
/// other functions (`close_block`, `close_tree` and so on) only take out what is held.
pub fn hold(kept: &mut Kept, held: Held)
    ensures { kept.new ≡ kept_with kept.old held }
{
    drop(mem::replace(&mut kept.held, held));
}

/// The answer where a line was taken in place, or refused: no part is whole with it.
pub fn no_part(step: Result<(), FollowFault>) -> Result<Option<Part>, FollowFault>
    ensures { (kept : KeptValue) (expected : Option HeldValue) (old new : HeldValue) → Steps expected old new step
        → Follows (keeps kept expected) (kept_with kept old) (kept_with kept new) result }
{
    match step {
        Ok(()) => Ok(None),
        Err(refused) => Err(refused),
    }
}

/// A line that may not follow: what was held is held again.
pub fn refuse(kept: &mut Kept, held: Held) -> Result<Option<Part>, FollowFault>
    ensures kept { kept.new ≡ kept_with kept.old held }
    ensures refused { result ≡ Err FollowFault.OutOfOrder }
{
    hold(kept, held);
    Err(FollowFault::OutOfOrder)
}

/// The same, with the line.
pub fn refuse_line(kept: &mut Kept, held: Held, line: Line) -> Result<Option<Part>, FollowFault>
    ensures kept { kept.new ≡ kept_with kept.old held }
    ensures refused { result ≡ Err FollowFault.OutOfOrder }
{
    drop(line);
    refuse(kept, held)
}

/// A line that may, and the part that is whole with it.
pub fn go_on(kept: &mut Kept, held: Held, part: Option<Part>) -> Result<Option<Part>, FollowFault>
    ensures kept { kept.new ≡ kept_with kept.old held }
    ensures part { result ≡ Ok part }
{
    hold(kept, held);
    Ok(part)
}
