//! Which line may follow, and what has come with it. A line that is refused changes nothing.
//!
//! What owns memory is let go by a call of `drop`, here and in the reading of a text, which costs the proof less than
//! the end of each way out does.

ghost use Rattle.std.specs.Prelude.{◌≤◌, ◌+◌};
ghost use Rattle.mari_publish.specs.Order.{after, Follows, HasRoom};

mod bids;
mod ending;
mod heading;
mod listing;
mod step;
mod totals;
mod tree;

use crate::held::{Held, Kept};
use crate::publication::Part;
pub use bids::list_bids;
use ending::{close_block, list_party};
use heading::{after_heading, at_start, between_blocks};
use listing::{list_line, open_tree};
use mari_lines::Line;
use mari_units::MOST_RUNS;
use std::alloc::Global;
pub use step::FollowFault;
use step::{no_part, refuse_line};
use totals::{close_totals, list_total};
use tree::{close_tree, grow};

/// Takes a line, and gives the part that is whole with it. What is kept stays as it is where the line may not follow,
/// and where there is no memory for it.
///
/// A line that goes on in what is held is taken in place; only one that ends it takes it out.
pub fn follow_line(alloc: Global, kept: &mut Kept, line: Line) -> Result<Option<Part>, FollowFault>
    requires counts { kept.old.counts.published + kept.old.counts.unpublished ≤ MOST_RUNS }
    requires room { HasRoom kept.old.held kept.old.counts }
    ensures { Follows (after kept.old kept.old.held line) kept.old kept.new result }
{
    match &mut kept.held {
        Held::Start => at_start(kept, line),
        Held::Between => between_blocks(alloc, kept, line),
        Held::Run(heading) => {
            let heading = *heading;
            after_heading(alloc, kept, heading, line)
        }
        Held::Listing(block) => match line {
            Line::Tree(count) => open_tree(alloc, kept, count),
            line => no_part(list_line(alloc, block, line)),
        },
        Held::Growing(growing) => match line {
            Line::Operator(operator) => close_tree(alloc, kept, operator),
            line => no_part(grow(alloc, growing, line)),
        },
        Held::Ending(ending) => match line {
            Line::End(run) => close_block(kept, run),
            line => no_part(list_party(alloc, ending, line)),
        },
        Held::Totals(operators, providers) => match line {
            Line::Done(published, unpublished) => close_totals(kept, published, unpublished),
            line => no_part(list_total(alloc, operators, providers, line)),
        },
        Held::Done => refuse_line(kept, Held::Done, line),
    }
}
