//! A block is open after its tree.

ghost use Rattle.std.specs.Prelude.{◌≡◌, ◌<◌, ℕ};
ghost use Rattle.mari_publish.specs.Order.{after, after_ending, full_block as full_block_of, Steps, Follows};
ghost use Rattle.mari_publish.specs.declared.held.Ending.{Ending as EndingValue};
ghost use Rattle.mari_publish.specs.declared.held.Held.TheVariants as held_as;

use super::step::{FollowFault, go_on, push, refuse};
use crate::held::{Ending, Held, Kept, Listing};
use crate::publication::{Block, FullBlock, Part};
use mari_lines::Line;
use mari_units::{MOST_BIDS, MOST_RUNS, MOST_ZONES};
use std::alloc::Global;
use std::mem;

/// A line after a block's tree, but not the block's last.
pub fn list_party(alloc: Global, ending: &mut Ending, line: Line) -> Result<(), FollowFault>
    requires { (run : ℕ) → line ≡ Line.End run → ⊥ }
    ensures { Steps (after_ending ending.old line) (held_as.Ending ending.old) (held_as.Ending ending.new) result }
{
    match line {
        Line::Operator(operator) => {
            if !ending.providers.as_slice().is_empty() {
                return Err(FollowFault::OutOfOrder);
            }
            if ending.operators.as_slice().len() >= MOST_ZONES {
                return Err(FollowFault::OutOfOrder);
            }
            Ok(push(alloc, &mut ending.operators, operator)?)
        }
        Line::Provider(provider) => {
            if ending.providers.as_slice().len() >= MOST_BIDS {
                return Err(FollowFault::OutOfOrder);
            }
            Ok(push(alloc, &mut ending.providers, provider)?)
        }
        line => {
            drop(line);
            Err(FollowFault::OutOfOrder)
        }
    }
}

/// The block that ends.
fn full_block(ending: Ending) -> FullBlock
    ensures { Block.Published result ≡ full_block_of ending }
{
    let Ending {
        listing,
        tree,
        operators,
        providers,
    } = ending;
    let Listing {
        heading,
        welfare,
        zones,
        borders,
        bids,
        demands,
    } = listing;
    FullBlock {
        heading,
        welfare,
        zones,
        borders,
        bids,
        demands,
        tree,
        operators,
        providers,
    }
}

/// The last line of a block, with this run's number.
pub fn close_block(kept: &mut Kept, run: u32) -> Result<Option<Part>, FollowFault>
    requires { kept.old.counts.published < MOST_RUNS }
    ensures { (ending : EndingValue) → kept.old.held ≡ held_as.Ending ending
        → Follows (after kept.old (held_as.Ending ending) (Line.End run)) kept.old kept.new result }
{
    match mem::replace(&mut kept.held, Held::Done) {
        Held::Ending(ending) => {
            if run != ending.listing.heading.run {
                return refuse(kept, Held::Ending(ending));
            }
            kept.counts.published += 1;
            let block = Block::Published(full_block(ending));
            go_on(kept, Held::Between, Some(Part::Block(block)))
        }
        held => refuse(kept, held),
    }
}
