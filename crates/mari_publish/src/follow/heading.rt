//! No block is open, or its heading alone.

ghost use Rattle.std.specs.Prelude.{◌≡◌, ◌≤◌, ◌+◌, []};
ghost use Rattle.mari_publish.specs.Order.{after, starts_block, kept_with, Follows};
ghost use Rattle.mari_publish.specs.declared.held.Held.TheVariants as held_as;

use super::step::{FollowFault, empty, go_on, hold, push, refuse, refuse_line};
use crate::held::{Held, Kept, Listing};
use crate::publication::{Block, Part};
use mari_lines::{Heading, Line, MoneyLine};
use mari_units::MOST_RUNS;
use std::alloc::Global;

/// The first line.
pub fn at_start(kept: &mut Kept, line: Line) -> Result<Option<Part>, FollowFault>
    ensures { Follows (after kept.old held_as.Start line) (kept_with kept.old held_as.Start) kept.new result }
{
    match line {
        Line::Head(date, quarters, budget) => {
            let head = Part::Head {
                date,
                quarters,
                budget,
            };
            go_on(kept, Held::Between, Some(head))
        }
        line => refuse_line(kept, Held::Start, line),
    }
}

/// The heading of a run that is published, after the head or a block.
fn open_run(kept: &mut Kept, heading: Heading) -> Result<Option<Part>, FollowFault>
    requires { kept.old.counts.published + kept.old.counts.unpublished ≤ MOST_RUNS }
    ensures { Follows (starts_block kept.old (Line.Run heading)) (kept_with kept.old held_as.Between) kept.new result }
{
    if kept.counts.published + kept.counts.unpublished >= MOST_RUNS as u32 {
        return refuse(kept, Held::Between);
    }
    go_on(kept, Held::Run(heading), None)
}

/// The line of a run that isn't published, after the head or a block.
fn take_unpublished(
    kept: &mut Kept,
    heading: Heading,
    count: u32,
) -> Result<Option<Part>, FollowFault>
    requires { kept.old.counts.published + kept.old.counts.unpublished ≤ MOST_RUNS }
    ensures { Follows (starts_block kept.old (Line.Unpublished heading count)) (kept_with kept.old held_as.Between) kept.new result }
{
    if kept.counts.published + kept.counts.unpublished >= MOST_RUNS as u32 {
        return refuse(kept, Held::Between);
    }
    kept.counts.unpublished += 1;
    let block = Block::Unpublished(heading, count);
    go_on(kept, Held::Between, Some(Part::Block(block)))
}

/// The first operator's line of the totals, after the head or a block.
fn open_totals(
    alloc: Global,
    kept: &mut Kept,
    operator: MoneyLine,
) -> Result<Option<Part>, FollowFault>
    ensures { Follows (starts_block kept.old (Line.TotalOperator operator)) (kept_with kept.old held_as.Between) kept.new result }
{
    let mut operators = empty(alloc);
    if push(alloc, &mut operators, operator).is_err() {
        hold(kept, Held::Between);
        return Err(FollowFault::Memory);
    }
    go_on(kept, Held::Totals(operators, empty(alloc)), None)
}

/// A line after the head or a block.
pub fn between_blocks(
    alloc: Global,
    kept: &mut Kept,
    line: Line,
) -> Result<Option<Part>, FollowFault>
    requires { kept.old.counts.published + kept.old.counts.unpublished ≤ MOST_RUNS }
    ensures { Follows (starts_block kept.old line) (kept_with kept.old held_as.Between) kept.new result }
{
    match line {
        Line::Run(heading) => open_run(kept, heading),
        Line::Unpublished(heading, count) => take_unpublished(kept, heading, count),
        Line::TotalOperator(operator) => open_totals(alloc, kept, operator),
        line => refuse_line(kept, Held::Between, line),
    }
}

/// A block of which the heading and the welfare have come.
fn open_listing(alloc: Global, heading: Heading, welfare: u64) -> Held
    ensures { result ≡ held_as.Listing (record { heading = heading; welfare = welfare; zones = []; borders = []; bids = []; demands = [] }) }
{
    Held::Listing(Listing {
        heading,
        welfare,
        zones: empty(alloc),
        borders: empty(alloc),
        bids: empty(alloc),
        demands: empty(alloc),
    })
}

/// The line after a run's heading.
pub fn after_heading(
    alloc: Global,
    kept: &mut Kept,
    heading: Heading,
    line: Line,
) -> Result<Option<Part>, FollowFault>
    ensures { Follows (after kept.old (held_as.Run heading) line) (kept_with kept.old (held_as.Run heading)) kept.new result }
{
    match line {
        Line::Welfare(welfare) => {
            let block = open_listing(alloc, heading, welfare);
            go_on(kept, block, None)
        }
        line => refuse_line(kept, Held::Run(heading), line),
    }
}
