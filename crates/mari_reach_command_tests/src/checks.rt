//! Texts that are checked: those that `clear` prints, and altered ones, each with its answer.

use crate::cases::{Answer, BY_BYTES, Folder, WHOLE, compare, run, shelf, sink};
use crate::days::{
    CUT_DAY, Day, EMPTY_DAY, PARADOX, PARADOX_DAY, TWO_RUNS, TWO_RUNS_DAY, TWO_ZONES,
    TWO_ZONES_DAY, TWO_ZONES_TEXT,
};
use std::alloc::Global;
use std::process::Abort;
use std::test::Fail;

/// Checks a folder with this publication, which comes whole and byte by byte.
fn checks(
    rt: &impl Abort,
    alloc: Global,
    folder: &Folder,
    parts: &[&str],
    want: Answer<'_>,
) -> Result<(), Fail> {
    for giving in [WHOLE, BY_BYTES] {
        let shelf = shelf(alloc, folder, Some(parts), giving)?;
        compare(rt, alloc, &["check", "F"], shelf, sink(alloc, &[])?, want)?;
    }
    Ok(())
}

/// A folder, the words by which its day is cleared, the exit code of that, lines of the day, and what `check` prints of it.
type Cleared = (
    &'static Folder,
    &'static [&'static str],
    u8,
    &'static [&'static str],
    &'static str,
);

const CLEARED: &[Cleared] = &[
    (
        &TWO_ZONES,
        &["clear", "F"],
        0,
        TWO_ZONES_TEXT,
        "valid 1 0\n",
    ),
    (
        &PARADOX,
        &["clear", "F", "--nodes", "3"],
        0,
        &[
            "mari 2 2025-03-12 96 3\nrun 1 1 scheduled first\n",
            "bid p1 40\nbid i1 0\n",
            "done 1 0\n",
        ],
        "valid 1 0\n",
    ),
    (
        &TWO_RUNS,
        &["clear", "F", "--nodes", "1"],
        1,
        &[
            "mari 2 2025-03-12 96 1\nrun 1 1 scheduled within ",
            "run 2 2 scheduled first\nwelfare 999490000\nzone Z 50.00 50.00 99999.00 1\n",
            "total-provider Q 1250.0000\ndone 1 1\n",
        ],
        "valid 1 1\n",
    ),
];

/// Clears the folder of a row, and checks what is printed.
fn clears_and_checks(rt: &impl Abort, alloc: Global, row: &Cleared) -> Result<(), Fail> {
    let mut sink = sink(alloc, &[])?;
    let shelf = shelf(alloc, row.0, None, WHOLE)?;
    let code = run(alloc, row.1, shelf, &mut sink)?;
    let text = str::from_utf8(sink.bytes())?;
    let mut has_each = true;
    for line in row.3 {
        has_each = has_each && text.contains(*line);
    }
    let agrees = code == row.2 && has_each;
    assert!(rt;
        agrees,
        "it answers {code} and prints {text}, not {:?}",
        row.3
    );
    checks(rt, alloc, row.0, &[text], (0, &[row.4]))
}

#[test]
fn a_day_that_clear_prints_is_valid(rt: HostRuntime) -> Result<(), Fail> {
    for row in CLEARED {
        clears_and_checks(&rt, rt.alloc(), row)?;
    }
    Ok(())
}

/// Pieces of a text, each with what stands in its place.
type Changes = &'static [(&'static str, &'static str)];

/// A day, what is altered in it, and the exit code and the line of the answer.
type Altered = (&'static Day, Changes, u8, &'static str);

/// Each fault of the check at its run.
const INVALID: &[Altered] = &[
    (
        &TWO_ZONES_DAY,
        &[("96 10000\n", "95 10000\n")],
        7,
        "invalid 0 1\n",
    ),
    (
        &TWO_ZONES_DAY,
        &[("run 1 1 scheduled", "run 1 2 scheduled")],
        7,
        "invalid 1 1\n",
    ),
    (
        &TWO_ZONES_DAY,
        &[
            ("zone A 20.00 20.00 20.00 1\n", ""),
            ("\nborder", "\nzone A 20.00 20.00 20.00 1\nborder"),
        ],
        7,
        "invalid 1 2\n",
    ),
    (
        &TWO_ZONES_DAY,
        &[("bid a1 50", "bid a1 51")],
        7,
        "invalid 1 3\n",
    ),
    (
        &TWO_ZONES_DAY,
        &[("welfare 799712000", "welfare 799712001")],
        7,
        "invalid 1 4\n",
    ),
    (
        &TWO_ZONES_DAY,
        &[("zone B 60.00", "zone B 61.00")],
        7,
        "invalid 1 5\n",
    ),
    (
        &TWO_ZONES_DAY,
        &[("zone A 20.00 20.00", "zone A 20.00 19.00")],
        7,
        "invalid 1 6\n",
    ),
    (
        &TWO_RUNS_DAY,
        &[("zone Z 50.00", "zone Z 51.00")],
        7,
        "invalid 2 7\n",
    ),
    (
        &TWO_ZONES_DAY,
        &[("60.00 2\n", "60.00 1\n")],
        7,
        "invalid 1 8\n",
    ),
    (
        &TWO_ZONES_DAY,
        &[("bound 20.00", "bound 20.01")],
        7,
        "invalid 1 10\n",
    ),
    (
        &TWO_RUNS_DAY,
        &[("provider Q 1250.0000\nend", "provider Q 1250.0025\nend")],
        7,
        "invalid 2 11\n",
    ),
    (
        &TWO_RUNS_DAY,
        &[("total-provider P 999990.0000", "total-provider P 0.0000")],
        7,
        "invalid 2 12\n",
    ),
];

/// Trees and gaps, those that hold among them.
const TREES: &[Altered] = &[
    // No gate of that name, no bid, no zone, and no price below the greatest.
    (
        &PARADOX_DAY,
        &[("branch i1", "branch p1")],
        7,
        "invalid 1 9\n",
    ),
    (
        &PARADOX_DAY,
        &[("branch i1", "branch i2")],
        7,
        "invalid 1 9\n",
    ),
    (
        &PARADOX_DAY,
        &[("branch i1", "price Y 50.00")],
        7,
        "invalid 1 9\n",
    ),
    (
        &PARADOX_DAY,
        &[("branch i1", "price Z 99999.00")],
        7,
        "invalid 1 9\n",
    ),
    // An item more, an item less, and more items than the budget.
    (
        &PARADOX_DAY,
        &[("tree 3\nbranch i1", "tree 2")],
        7,
        "invalid 1 9\n",
    ),
    (
        &PARADOX_DAY,
        &[("tree 3", "tree 2"), ("cut out 1\n", "")],
        7,
        "invalid 1 9\n",
    ),
    (
        &PARADOX_DAY,
        &[("96 10000\n", "96 2\n")],
        7,
        "invalid 1 9\n",
    ),
    // Leaves that don't hold.
    (&PARADOX_DAY, &[("cut out", "cut in")], 7, "invalid 1 10\n"),
    (&PARADOX_DAY, &[("cut out 1", "none")], 7, "invalid 1 10\n"),
    (
        &PARADOX_DAY,
        &[("branch i1", "price Z 50.00")],
        7,
        "invalid 1 10\n",
    ),
    // The gap that the tree shows, a greater one, and two that it doesn't show.
    (&TWO_RUNS_DAY, &[], 0, "valid 1 1\n"),
    (
        &TWO_RUNS_DAY,
        &[("249947.5000", "249947.5025")],
        0,
        "valid 1 1\n",
    ),
    (
        &TWO_RUNS_DAY,
        &[("249947.5000", "249947.4975")],
        7,
        "invalid 1 10\n",
    ),
    (
        &TWO_RUNS_DAY,
        &[("within 249947.5000", "first"), ("done 1 1", "done 2 0")],
        7,
        "invalid 1 10\n",
    ),
    // The best activation is within no gap of itself.
    (
        &PARADOX_DAY,
        &[
            ("scheduled first", "scheduled within 0.0000"),
            ("done 1 0", "done 0 1"),
        ],
        0,
        "valid 0 1\n",
    ),
];

/// Texts that no day has.
const REFUSED: &[Altered] = &[
    (
        &TWO_ZONES_DAY,
        &[("mari 2", "mari 1")],
        3,
        "refused publication.txt 1 11 BadLine\n",
    ),
    (
        &TWO_ZONES_DAY,
        &[("scheduled first", "scheduled published")],
        3,
        "refused publication.txt 2 11 BadLine\n",
    ),
    (
        &TWO_RUNS_DAY,
        &[("within 249947.5000", "within -0.0025")],
        3,
        "refused publication.txt 2 11 BadLine\n",
    ),
    (
        &TWO_ZONES_DAY,
        &[("bid a1 50", "bid a1 050")],
        3,
        "refused publication.txt 7 11 BadLine\n",
    ),
    (
        &TWO_ZONES_DAY,
        &[("\nend 1\n", "\nend 2\n")],
        3,
        "refused publication.txt 16 12 BadOrder\n",
    ),
    (
        &TWO_ZONES_DAY,
        &[("done 1 0", "done 0 1")],
        3,
        "refused publication.txt 21 12 BadOrder\n",
    ),
    (
        &TWO_ZONES_DAY,
        &[("done 1 0\n", "done 1 0\ndone 1 0\n")],
        3,
        "refused publication.txt 22 12 BadOrder\n",
    ),
    (
        &TWO_ZONES_DAY,
        &[("done 1 0\n", "done 1 0")],
        3,
        "refused publication.txt 21 13 Truncated\n",
    ),
    (&CUT_DAY, &[], 3, "refused publication.txt 4 13 Truncated\n"),
    (
        &EMPTY_DAY,
        &[],
        3,
        "refused publication.txt 1 13 Truncated\n",
    ),
    // A fault of the text comes before one of the check.
    (
        &TWO_ZONES_DAY,
        &[("96 10000\n", "95 10000\n"), ("done 1 0\n", "")],
        3,
        "refused publication.txt 21 13 Truncated\n",
    ),
];

/// A text in which one piece is another.
fn altered(alloc: Global, text: &str, old: &str, new: &str) -> Result<String, Fail> {
    match text.split_once(old) {
        Some((before, after)) => Ok(format!(in alloc; "{before}{new}{after}")?),
        None => Err(Fail::from("the text has no such piece")),
    }
}

/// The text of a day.
fn text_of(alloc: Global, day: &Day) -> Result<String, Fail> {
    let mut text = String::new(alloc);
    for part in day.parts {
        text.push_str(*part)?;
    }
    Ok(text)
}

/// Checks the altered day of a row.
fn checks_altered(rt: &impl Abort, alloc: Global, row: &Altered) -> Result<(), Fail> {
    let mut text = text_of(alloc, row.0)?;
    for (old, new) in row.1 {
        text = altered(alloc, &text, *old, *new)?;
    }
    checks(rt, alloc, &row.0.folder, &[&text], (row.2, &[row.3]))
}

#[test]
fn each_damaged_text_has_its_answer(rt: HostRuntime) -> Result<(), Fail> {
    for table in [INVALID, TREES, REFUSED] {
        for row in table {
            checks_altered(&rt, rt.alloc(), row)?;
        }
    }
    Ok(())
}
