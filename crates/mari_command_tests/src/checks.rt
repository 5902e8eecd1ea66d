//! Publications that are checked, each of them cut off at a byte.

use crate::cases::Printed::Whole;
use crate::cases::{Folder, TWO_ZONES, TWO_ZONES_DAY, compare, shelf, sink};
use mari_io::MemoryShelf;
use std::alloc::Global;
use std::process::Abort;
use std::sync::Wait;
use std::test::Fail;
use std::thread::Threads;

/// Checks the folder of a shelf, and compares the exit code and what is printed.
fn checks(
    rt: &(impl Abort + Threads + Wait + Sync),
    alloc: Global,
    shelf: MemoryShelf,
    code: u8,
    printed: &str,
) -> Result<(), Fail> {
    let sink = sink(alloc, 10, 10_000, &[])?;
    let want = (code, Whole(&[printed]));
    compare(
        rt,
        alloc,
        "a publication",
        &["check", "F"],
        shelf,
        sink,
        want,
    )
}

/// Checks folder F with this publication, and compares the exit code and what is printed.
pub(super) fn checks_text(
    rt: &(impl Abort + Threads + Wait + Sync),
    alloc: Global,
    folder: Folder<'_>,
    parts: &[&str],
    by_bytes: bool,
    code: u8,
    printed: &str,
) -> Result<(), Fail> {
    let folder = Folder {
        publication: Some(parts),
        ..folder
    };
    let shelf = shelf(alloc, folder, &[], by_bytes)?;
    checks(rt, alloc, shelf, code, printed)
}

/// Checks the two zones' day up to a byte, which lacks this line and those after it.
fn checks_start(
    rt: &(impl Abort + Threads + Wait + Sync),
    alloc: Global,
    start: &str,
    line: u32,
) -> Result<(), Fail> {
    let printed = format!(in alloc; "refused publication.txt {line} 13 Truncated\n")?;
    checks_text(rt, alloc, TWO_ZONES, &[start], false, 3, &printed)
}

#[test]
fn a_text_cut_off_at_any_byte_is_refused_at_the_line_that_is_missing(
    rt: HostRuntime,
) -> Result<(), Fail> {
    let alloc = rt.alloc();
    let mut start = String::new(alloc);
    let mut line = 1u32;
    for part in TWO_ZONES_DAY {
        for letter in part.chars() {
            checks_start(&rt, alloc, &start, line)?;
            start.push(letter)?;
            if letter == '\n' {
                line = line.saturating_add(1);
            }
        }
    }
    Ok(())
}
