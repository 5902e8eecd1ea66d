//! Words that are no command.

use crate::cases::{WHOLE, compare, shelf, sink};
use crate::days::{TWO_ZONES, TWO_ZONES_TEXT};
use std::test::Fail;

const USAGE: &str =
    "usage: reach clear FOLDER [--nodes N] | reach check FOLDER | reach feed FOLDER\n";

/// Among them a command of the first program, and its workers, which this one doesn't have.
const NO_COMMANDS: &[&[&str]] = &[
    &[],
    &["clear"],
    &["check"],
    &["clear", "F", "F"],
    &["clear", "F", "--nodes", "0"],
    &["clear", "F", "--nodes", "50001"],
    &["check", "F", "--nodes", "5"],
    &["clear", "F", "--workers", "1"],
    &["clear", "F", "--workers=1"],
    &["split", "F"],
];

#[test]
fn words_that_are_no_command_are_answered_by_the_usage_line(rt: HostRuntime) -> Result<(), Fail> {
    let alloc = rt.alloc();
    for words in NO_COMMANDS {
        let shelf = shelf(alloc, &TWO_ZONES, Some(TWO_ZONES_TEXT), WHOLE)?;
        compare(&rt, alloc, *words, shelf, sink(alloc, &[])?, (2, &[USAGE]))?;
    }
    Ok(())
}
