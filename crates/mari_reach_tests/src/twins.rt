//! Which gates are twins, and which of two ranks before the other.

use crate::leaves::holds;
use crate::same::same_in;
use crate::small::{TWINS, market_of, prefix};
use mari_reach::{Decision, ReachLeaf};
use std::alloc::Global;
use std::test::Fail;

/// A gate that is decided open, and one that is decided closed; and whether that contradicts itself.
struct Row {
    name: &'static str,
    open: u32,
    closed: u32,
    is_void: bool,
}

const ROWS: &[Row] = &[
    Row {
        name: "an open gate opens a twin of better price",
        open: 0,
        closed: 1,
        is_void: true,
    },
    Row {
        name: "but not one of worse price",
        open: 1,
        closed: 0,
        is_void: false,
    },
    Row {
        name: "of one price the later in the file ranks before",
        open: 0,
        closed: 2,
        is_void: true,
    },
    Row {
        name: "and not the earlier",
        open: 2,
        closed: 0,
        is_void: false,
    },
    Row {
        name: "gates of different sizes are no twins",
        open: 0,
        closed: 3,
        is_void: false,
    },
    Row {
        name: "nor is one of a group",
        open: 0,
        closed: 4,
        is_void: false,
    },
    Row {
        name: "nor are those of different zones",
        open: 5,
        closed: 1,
        is_void: false,
    },
    Row {
        name: "nor is one of two orders",
        open: 0,
        closed: 11,
        is_void: false,
    },
    Row {
        name: "nor is a parent",
        open: 0,
        closed: 12,
        is_void: false,
    },
    Row {
        name: "nor is a child",
        open: 0,
        closed: 13,
        is_void: false,
    },
    Row {
        name: "divisible bids of one price and one span of quantities are twins",
        open: 6,
        closed: 7,
        is_void: true,
    },
    Row {
        name: "of which the earlier ranks after",
        open: 7,
        closed: 6,
        is_void: false,
    },
    Row {
        name: "those of different prices are none",
        open: 8,
        closed: 7,
        is_void: false,
    },
    Row {
        name: "of withdrawals the dearer ranks before",
        open: 9,
        closed: 10,
        is_void: true,
    },
    Row {
        name: "and not the cheaper",
        open: 10,
        closed: 9,
        is_void: false,
    },
    Row {
        name: "those of different sides are no twins",
        open: 9,
        closed: 0,
        is_void: false,
    },
];

/// Whether the decisions of a row contradict each other.
fn is_void_in(alloc: Global, row: &Row) -> Result<Option<bool>, Fail> {
    let market = market_of(alloc, &TWINS)?;
    let decisions = [
        Decision::Gate(row.open, true),
        Decision::Gate(row.closed, false),
    ];
    let word = prefix(14, 0);
    let answer = holds(&market, &decisions, &ReachLeaf::Void, 0, &word);
    drop(market);
    Ok(answer)
}

#[test]
fn an_open_gate_and_a_closed_one_that_are_twins_or_not(rt: HostRuntime) -> Result<(), Fail> {
    for row in ROWS {
        let answer = is_void_in(rt.alloc(), row)?;
        same_in(&rt, row.name, answer, Some(row.is_void));
    }
    Ok(())
}
