//! The order of the second form's lines.

ghost use Rattle.std.specs.Prelude.{◌≡◌, ◌≤◌, ◌<◌, ◌+◌, ◌^◌, ◌∷◌, ◌++◌, [], OnOk, OnErr};
ghost use Rattle.mari_lines.specs.Ranges.{InRange};
ghost use Rattle.mari_publish.specs.Order.{HasRoom};
ghost use Rattle.mari_reach_lines.specs.Ranges.{ReachInRange};
ghost use Rattle.mari_reach_lines.specs.declared.line.ReachLine.TheVariants as reach;
ghost use Rattle.mari_reach_text.specs.Order.{FollowsReach, after_both, given, kept_beside, line_of, noted, said};
ghost use Rattle.mari_reach_text.specs.Order.{counts_right as counts, without_tree as tree_left_out};

use crate::claims::one_if_first;
use crate::kept::{ReachKept, ReachPart, Said};
use crate::named::{NamedBlock, NamedItem};
use mari_lines::{FormFault, Line};
use mari_market::Prices;
use mari_publish::{Block, FollowFault, FullBlock, Held, Kept, Part, TakeFault, follow_line};
use mari_reach_lines::{Claim, ReachLine, reach_lines_differ, read_reach_line};
use mari_stream::TextForm;
use mari_units::{Items, MOST_RUNS, Memory};
use std::alloc::Global;
use std::mem;

/// The line of the first form for which one stands that both forms have, and what it says besides.
fn split_shared(line: Line) -> (Line, Said)
    requires { InRange line }
    ensures line { result.0 ≡ line_of (reach.Shared line) }
    ensures besides { result.1 ≡ said (reach.Shared line) }
{
    match line {
        Line::Bound(cents) => {
            let item = NamedItem::Bound(Prices { cents });
            (Line::Branch, Said::Item(item))
        }
        Line::Cut(cut) => (Line::Branch, Said::Item(NamedItem::Cut(cut))),
        Line::Done(first, within) => (Line::Done(first + within, 0), Said::First(first)),
        line => (line, Said::Nothing),
    }
}

/// The line of the first form for which a line stands, and what it says besides.
fn split(line: ReachLine) -> (Line, Said)
    requires { ReachInRange line }
    ensures line { result.0 ≡ line_of line }
    ensures besides { result.1 ≡ said line }
{
    match line {
        ReachLine::Head(date, quarters, budget) => {
            (Line::Head(date, quarters, budget), Said::Nothing)
        }
        ReachLine::Run(heading, claim) => (Line::Run(heading), Said::Claim(claim)),
        ReachLine::Branch(bid) => (Line::Branch, Said::Item(NamedItem::Gate(bid))),
        ReachLine::Price(zone, price) => (Line::Branch, Said::Item(NamedItem::Price(zone, price))),
        ReachLine::Void => (Line::Branch, Said::Item(NamedItem::Void)),
        ReachLine::Shared(line) => split_shared(line),
    }
}

/// Whether the last line counts the runs that state the first activation.
fn counts_right(first: u32, besides: &Said) -> bool
    ensures { result ≡ counts first besides.now }
{
    match besides {
        Said::First(count) => *count == first,
        _ => true,
    }
}

/// An empty list.
fn empty<T>(alloc: Global) -> Items<T>
    ensures { result ≡ [] }
{
    Items::of(Vec::new(alloc))
}

/// Appends an item.
fn push(alloc: Global, tree: &mut Items<NamedItem>, item: NamedItem) -> Result<(), Memory>
    ensures { OnOk result (tree.new ≡ tree.old ++ item ∷ []) }
{
    let mut list = mem::replace(tree, empty(alloc)).into_vec();
    let pushed = list.push(item).is_ok();
    *tree = Items::of(list);
    if pushed { Ok(()) } else { Err(Memory) }
}

/// Keeps what a line says besides.
fn note(alloc: Global, kept: &mut ReachKept, besides: Said) -> Result<(), Memory>
    requires { kept.old.first < 2 ^ 31 }
    ensures { OnOk result (kept.new ≡ noted kept.old besides) }
{
    match besides {
        Said::Claim(claim) => {
            kept.first += one_if_first(claim);
            kept.claim = claim;
            Ok(())
        }
        Said::Item(item) => push(alloc, &mut kept.tree, item),
        Said::First(_) => Ok(()),
        Said::Nothing => Ok(()),
    }
}

/// A block of the first form without its tree.
fn without_tree(alloc: Global, block: FullBlock) -> FullBlock
    ensures { result ≡ tree_left_out block }
{
    FullBlock {
        tree: empty(alloc),
        ..block
    }
}

/// The part that is whole, by the part of the first form.
fn give(
    alloc: Global,
    kept: &mut ReachKept,
    part: Option<Part>,
) -> Result<Option<ReachPart>, TakeFault>
    ensures { FollowsReach (given kept.old part) kept.new result }
{
    let Some(part) = part else {
        return Ok(None);
    };
    match part {
        Part::Head {
            date,
            quarters,
            budget,
        } => Ok(Some(ReachPart::Head {
            date,
            quarters,
            budget,
        })),
        Part::Block(Block::Published(block)) => {
            let block = NamedBlock {
                block: without_tree(alloc, block),
                claim: kept.claim,
                tree: mem::replace(&mut kept.tree, empty(alloc)),
            };
            Ok(Some(ReachPart::Block(block)))
        }
        Part::Block(Block::Unpublished(..)) => Err(TakeFault::OutOfOrder),
        Part::Totals {
            operators,
            providers,
        } => Ok(Some(ReachPart::Totals {
            operators,
            providers,
        })),
    }
}

/// Takes a line, by the line of the first form for which it stands and by what it says besides.
fn follow_both(
    alloc: Global,
    kept: &mut ReachKept,
    line: Line,
    besides: Said,
) -> Result<Option<ReachPart>, TakeFault>
    requires first { kept.old.first < 2 ^ 31 }
    requires counts { kept.old.kept.counts.published + kept.old.kept.counts.unpublished ≤ MOST_RUNS }
    requires room { HasRoom kept.old.kept.held kept.old.kept.counts }
    ensures { FollowsReach (after_both kept.old line besides) kept.new result }
{
    if !counts_right(kept.first, &besides) {
        drop(line);
        drop(besides);
        return Err(TakeFault::OutOfOrder);
    }
    let part = match follow_line(alloc, &mut kept.kept, line) {
        Ok(part) => part,
        Err(FollowFault::OutOfOrder) => {
            drop(besides);
            return Err(TakeFault::OutOfOrder);
        }
        Err(FollowFault::Memory) => {
            drop(besides);
            return Err(TakeFault::Memory);
        }
    };
    if note(alloc, kept, besides).is_err() {
        drop(part);
        return Err(TakeFault::Memory);
    }
    give(alloc, kept, part)
}

impl TextForm for ReachKept {
    ghost use Rattle.mari_reach_text.specs.Order.{reach_form};

    type Line = ReachLine;

    type Part = ReachPart;

    ghost form = { reach_form };

    fn start(alloc: Global) -> Self {
        ReachKept {
            kept: Kept::start(),
            claim: Claim::First,
            tree: empty(alloc),
            first: 0,
        }
    }

    fn take_line(&mut self, alloc: Global, here: &[u8]) -> Result<Option<ReachPart>, TakeFault> {
        let line = match read_reach_line(alloc, here) {
            Ok(line) => line,
            Err(FormFault::Formless) => return Err(TakeFault::Formless),
            Err(FormFault::Memory) => return Err(TakeFault::Memory),
        };
        let (line, besides) = split(line);
        follow_both(alloc, self, line, besides)
    }

    fn is_done(&self) -> bool {
        matches!(self.kept.held, Held::Done)
    }

    fn lines_keep() {
        reach_lines_differ()
    }
}
