//! Pages that are missing or can't be read, and writes that fail: the exit code, and what was written before.

use crate::cases::{Answer, BY_BYTES, Giving, WHOLE, compare, shelf, sink};
use crate::days::{TWO_ZONES, TWO_ZONES_HEAD, TWO_ZONES_TEXT};
use crate::feeds::{
    FED_FIRST, FED_HEAD, FED_TOTALS, FED_WITHIN, FIRST_LINE, HEAD_LINE, TOTALS_LINE, WITHIN_LINE,
};
use std::alloc::Global;
use std::process::Abort;
use std::test::Fail;

/// The parts of a publication, if the folder has one.
type Publication = Option<&'static [&'static str]>;

/// The day that is fed.
const FED: Publication = Some(&[FED_HEAD, FED_WITHIN, FED_FIRST, FED_TOTALS]);

/// The two zones' day.
const PRINTED: Publication = Some(TWO_ZONES_TEXT);

/// A call, the publication, how the shelf gives its pages, and what the call comes to.
type Reading = (
    &'static [&'static str],
    Publication,
    Giving<'static>,
    Answer<'static>,
);

/// Nothing fails, but a page is missing.
const MISSING: &[Reading] = &[
    (&["clear", "G"], None, WHOLE, (8, &["missing day.csv\n"])),
    (&["check", "G"], PRINTED, WHOLE, (8, &["missing day.csv\n"])),
    (
        &["check", "F"],
        None,
        WHOLE,
        (8, &["missing publication.txt\n"]),
    ),
    (
        &["feed", "F"],
        None,
        WHOLE,
        (8, &["missing publication.txt\n"]),
    ),
];

/// A call on the shelf fails. The market files are fetched by seven calls, and the eighth opens the publication.
const BROKEN: &[Reading] = &[
    (
        &["clear", "F"],
        None,
        Giving {
            faults: &[4],
            ..WHOLE
        },
        (4, &["readfault bids.csv\n"]),
    ),
    (
        &["check", "F"],
        PRINTED,
        Giving {
            faults: &[7],
            ..WHOLE
        },
        (4, &["readfault demands.csv\n"]),
    ),
    (
        &["check", "F"],
        PRINTED,
        Giving {
            faults: &[8],
            ..WHOLE
        },
        (4, &["readfault publication.txt\n"]),
    ),
    (
        &["check", "F"],
        PRINTED,
        Giving {
            faults: &[200],
            ..BY_BYTES
        },
        (4, &["readfault publication.txt\n"]),
    ),
    (
        &["check", "F"],
        PRINTED,
        Giving {
            faults: &[10],
            ..WHOLE
        },
        (4, &["readfault publication.txt\n"]),
    ),
];

/// The same of a feed, whose first call opens the page, and whose head has 24 bytes.
const BROKEN_FEEDS: &[Reading] = &[
    (
        &["feed", "F"],
        FED,
        Giving {
            faults: &[1],
            ..WHOLE
        },
        (4, &["readfault publication.txt\n"]),
    ),
    (
        &["feed", "F"],
        FED,
        Giving {
            faults: &[25],
            ..BY_BYTES
        },
        (4, &["readfault publication.txt\n"]),
    ),
    (
        &["feed", "F"],
        FED,
        Giving {
            faults: &[26],
            ..BY_BYTES
        },
        (4, &[HEAD_LINE, "readfault publication.txt\n"]),
    ),
    (
        &["feed", "F"],
        FED,
        Giving {
            faults: &[3],
            ..WHOLE
        },
        (
            4,
            &[
                HEAD_LINE,
                WITHIN_LINE,
                FIRST_LINE,
                TOTALS_LINE,
                "readfault publication.txt\n",
            ],
        ),
    ),
];

/// Makes the call of a row.
fn reads(rt: &impl Abort, alloc: Global, row: &Reading) -> Result<(), Fail> {
    let (words, publication, giving, want) = *row;
    let shelf = shelf(alloc, &TWO_ZONES, publication, giving)?;
    compare(rt, alloc, words, shelf, sink(alloc, &[])?, want)
}

#[test]
fn pages_that_are_missing_or_fail_as_they_are_read(rt: HostRuntime) -> Result<(), Fail> {
    for table in [MISSING, BROKEN, BROKEN_FEEDS] {
        for row in table {
            reads(&rt, rt.alloc(), row)?;
        }
    }
    Ok(())
}

/// A call, the publication, and what is printed, in the parts that are each written at once.
type Writing = (
    &'static [&'static str],
    Publication,
    &'static [&'static str],
);

const WRITINGS: &[Writing] = &[
    (&["clear", "F"], None, TWO_ZONES_TEXT),
    (&["clear", "G"], None, &["missing day.csv\n"]),
    (&["check", "F"], PRINTED, &["valid 1 0\n"]),
    (
        &["check", "F"],
        Some(&[TWO_ZONES_HEAD]),
        &["refused publication.txt 2 13 Truncated\n"],
    ),
    (
        &["feed", "F"],
        FED,
        &[HEAD_LINE, WITHIN_LINE, FIRST_LINE, TOTALS_LINE],
    ),
    (
        &["feed", "F"],
        Some(&[FED_HEAD]),
        &[HEAD_LINE, "refused publication.txt 2 13 Truncated\n"],
    ),
];

/// Makes the call into a sink whose write of this number fails, and compares what the sink took.
fn takes(
    rt: &impl Abort,
    alloc: Global,
    writing: &Writing,
    call: u32,
    taken: &str,
) -> Result<(), Fail> {
    let shelf = shelf(alloc, &TWO_ZONES, writing.1, WHOLE)?;
    let sink = sink(alloc, &[call])?;
    compare(rt, alloc, writing.0, shelf, sink, (5, &[taken]))
}

/// Makes the call once for each write of its parts, by 10 bytes a write: that write fails, and the sink keeps the bytes
/// before it.
fn each_write(rt: &impl Abort, alloc: Global, writing: &Writing) -> Result<(), Fail> {
    let mut taken = String::new(alloc);
    let mut call = 0u32;
    for part in writing.2 {
        for (place, letter) in part.chars().enumerate() {
            if place % 10 == 0 {
                call = call.saturating_add(1);
                takes(rt, alloc, writing, call, &taken)?;
            }
            taken.push(letter)?;
        }
    }
    Ok(())
}

#[test]
fn each_write_that_fails_leaves_what_was_written_before(rt: HostRuntime) -> Result<(), Fail> {
    for writing in WRITINGS {
        each_write(&rt, rt.alloc(), writing)?;
    }
    Ok(())
}
