//! A page that is too long, and sinks that take a part of the day.

use crate::cases::Printed::Whole;
use crate::cases::{Folder, ONE_ZONE, TWO_ZONES, compare, page, plan, shelf, sink};
use mari_io::{MemoryShelf, MemorySink};
use std::alloc::Global;
use std::process::Abort;
use std::sync::Wait;
use std::test::Fail;
use std::thread::Threads;

#[test]
fn a_page_that_is_too_long(rt: HostRuntime) -> Result<(), Fail> {
    let alloc = rt.alloc();
    let day = page(alloc, "F/day.csv", b"date,rule\n".to_vec(alloc)?)?;
    let zones = page(alloc, "F/zones.csv", vec![in alloc; b'Z'; 268_435_457]?)?;
    let pages = vec![in alloc; day, zones]?;
    let shelf = MemoryShelf::new(pages, plan(alloc, &[])?);
    let sink = sink(alloc, 10, 10_000, &[])?;
    let want = (9, Whole(&["toolong zones.csv\n"]));
    compare(&rt, alloc, "a page", &["clear", "F"], shelf, sink, want)
}

/// Clears a folder into a sink in which a write fails, and compares what the sink took.
fn takes(
    rt: &(impl Abort + Threads + Wait + Sync),
    alloc: Global,
    folder: Folder<'_>,
    sink: MemorySink,
    taken: &str,
) -> Result<(), Fail> {
    let shelf = shelf(alloc, folder, &[], false)?;
    let want = (5, Whole(&[taken]));
    compare(rt, alloc, "a sink", &["clear", "F"], shelf, sink, want)
}

#[test]
fn sinks_that_take_a_part_of_the_head_nothing_and_the_head(rt: HostRuntime) -> Result<(), Fail> {
    let alloc = rt.alloc();
    let third = sink(alloc, 10, 10_000, &[3])?;
    takes(&rt, alloc, ONE_ZONE, third, "mari 1 2025-03-12 96")?;
    let closed = sink(alloc, 0, 10_000, &[])?;
    takes(&rt, alloc, TWO_ZONES, closed, "")?;
    let short = sink(alloc, 10, 27, &[])?;
    takes(&rt, alloc, TWO_ZONES, short, "mari 1 2025-03-12 96 10000\n")
}
