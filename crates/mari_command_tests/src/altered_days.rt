//! Publications that were altered, each with its answer.

use crate::cases::{TWO_ZONES, TWO_ZONES_DAY, joined};
use crate::checks::checks_text;
use std::alloc::Global;
use std::process::Abort;
use std::sync::Wait;
use std::test::Fail;
use std::thread::Threads;

/// What stands before the first place of a piece in a text, another piece in its place, and what stands after it.
fn altered<'a>(
    text: &'a str,
    old: &str,
    new: &'a str,
) -> Result<(&'a str, &'a str, &'a str), Fail> {
    match text.split_once(old) {
        Some((before, after)) => Ok((before, new, after)),
        None => Err(Fail::from("the text has no such piece")),
    }
}

/// A piece of a text, another in its place, an exit code and a printed line.
type Altered = (&'static str, &'static str, u8, &'static str);

/// A piece of the two zones' day, another in its place, and the exit code and the line with the run and the fault that
/// are reported. The last four are texts that no day prints, and the last of them has a fault of the check before that
/// of its text.
const ALTERED: &[Altered] = &[
    ("96 10000\n", "95 10000\n", 7, "invalid 0 1\n"),
    ("run 1 1 scheduled", "run 1 2 scheduled", 7, "invalid 1 1\n"),
    (
        "zone A 20.00 20.00 20.00 1\nzone B 60.00 60.00 60.00 2\n",
        "zone B 60.00 60.00 60.00 2\nzone A 20.00 20.00 20.00 1\n",
        7,
        "invalid 1 2\n",
    ),
    ("bid a1 50", "bid a1 51", 7, "invalid 1 3\n"),
    ("welfare 799712000", "welfare 799712001", 7, "invalid 1 4\n"),
    (
        "zone B 60.00 60.00",
        "zone B 61.00 60.00",
        7,
        "invalid 1 5\n",
    ),
    (
        "zone A 20.00 20.00",
        "zone A 20.00 19.00",
        7,
        "invalid 1 6\n",
    ),
    ("60.00 2\n", "60.00 1\n", 7, "invalid 1 8\n"),
    ("bound 20.00 60.00", "branch", 7, "invalid 1 9\n"),
    (
        "bound 20.00 60.00",
        "bound 20.01 60.00",
        7,
        "invalid 1 10\n",
    ),
    (
        "operator TA -250.0000 250.0000 -500.0000",
        "operator TA -250.0000 250.0025 -500.0025",
        7,
        "invalid 1 11\n",
    ),
    (
        "total-provider P2 450.0000",
        "total-provider P2 450.0025",
        7,
        "invalid 1 12\n",
    ),
    (
        "bid a1 50",
        "bid a1 050",
        3,
        "refused publication.txt 7 11 BadLine\n",
    ),
    (
        "\nend 1\n",
        "\nend 2\n",
        3,
        "refused publication.txt 16 12 BadOrder\n",
    ),
    (
        "done 1 0\n",
        "done 1 0",
        3,
        "refused publication.txt 21 13 Truncated\n",
    ),
    (
        "96 10000\nrun 1 1",
        "95 10000\nrun 1 01",
        3,
        "refused publication.txt 2 11 BadLine\n",
    ),
];

/// Checks a text with one piece altered, whole or byte by byte.
fn checks_altered(
    rt: &(impl Abort + Threads + Wait + Sync),
    alloc: Global,
    text: &str,
    row: &Altered,
    by_bytes: bool,
) -> Result<(), Fail> {
    let (before, new, after) = altered(text, row.0, row.1)?;
    let parts = [before, new, after];
    checks_text(rt, alloc, TWO_ZONES, &parts, by_bytes, row.2, row.3)
}

#[test]
fn each_altered_piece_has_its_fault(rt: HostRuntime) -> Result<(), Fail> {
    let alloc = rt.alloc();
    let text = String::from_utf8(joined(alloc, TWO_ZONES_DAY)?)?;
    for row in ALTERED {
        checks_altered(&rt, alloc, &text, row, false)?;
        checks_altered(&rt, alloc, &text, row, true)?;
    }
    Ok(())
}

#[test]
fn a_line_of_40000_digits_is_refused(rt: HostRuntime) -> Result<(), Fail> {
    let alloc = rt.alloc();
    let text = String::from_utf8(joined(alloc, TWO_ZONES_DAY)?)?;
    let digits = "7".repeat(alloc, 40_000)?;
    let (before, digits, _) = altered(&text, "done 1 0\n", &digits)?;
    let printed = "refused publication.txt 21 13 Truncated\n";
    checks_text(&rt, alloc, TWO_ZONES, &[before, digits], false, 3, printed)?;
    let parts = [before, digits, "\n"];
    let printed = "refused publication.txt 21 11 BadLine\n";
    checks_text(&rt, alloc, TWO_ZONES, &parts, false, 3, printed)
}
