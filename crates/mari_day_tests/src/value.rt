//! What the limits of borders are worth in printed days, as they were printed and with one line altered.

ghost use Rattle.mari_remain.specs.Accepted.{IsAccepted};

use crate::check::{Day, FULL, shelf_of, text_with};
use crate::folder::{TWO_ZONES, books};
use crate::same::{same, same_in};
use mari_capacity::{ValueEnd, Valued, value_stream};
use mari_io::Fetch;
use mari_publish::TextFault;
use mari_remain::Books;
use std::alloc::Global;
use std::test::Fail;

/// A line in the place of a day's own, by how many MW limits are raised, and the lines and the end then.
type Row = (usize, &'static str, u32, &'static str, ValueEnd);

const VALID: ValueEnd = ValueEnd::Valid {
    published: 1,
    unpublished: 0,
};

/// Lines of the full day: its border carries all of its 50 MW, for a demand of 80 MW.
const OF_FULL: &[Row] = &[
    (
        0,
        "mari 1 2025-03-12 96 10000",
        10,
        "value 1 10\nrun 1\nborder A B 100.0000 100.0000 0.0000 0.0000\ndone 1 0\n",
        VALID,
    ),
    // the demand bounds the flow
    (
        0,
        "mari 1 2025-03-12 96 10000",
        40,
        "value 1 40\nrun 1\nborder A B 300.0000 400.0000 0.0000 0.0000\ndone 1 0\n",
        VALID,
    ),
    (
        10,
        "bound 20.01 60.00",
        10,
        "value 1 10\n",
        ValueEnd::Invalid { run: 1, fault: 10 },
    ),
    // the head stands before a line that has no form
    (
        0,
        "mari 1 2025-03-13 96 10000\nx",
        10,
        "value 1 10\n",
        ValueEnd::Invalid { run: 0, fault: 1 },
    ),
    // a line within a block stands before the block's end
    (
        7,
        "bid b1 31\nx",
        10,
        "value 1 10\n",
        ValueEnd::Text(TextFault::BadLine(9)),
    ),
    (
        15,
        "end 1\nx",
        10,
        "value 1 10\nrun 1\nborder A B 100.0000 100.0000 0.0000 0.0000\n",
        ValueEnd::Text(TextFault::BadLine(17)),
    ),
    // other totals, alone and before a line that may not follow
    (
        19,
        "total-provider P2 450.0025",
        10,
        "value 1 10\nrun 1\nborder A B 100.0000 100.0000 0.0000 0.0000\n",
        ValueEnd::Invalid { run: 1, fault: 12 },
    ),
    (
        19,
        "total-provider P2 450.0025\ndone 1 0",
        10,
        "value 1 10\nrun 1\nborder A B 100.0000 100.0000 0.0000 0.0000\n",
        ValueEnd::Text(TextFault::BadOrder(22)),
    ),
];

/// The same folder with a budget that its run's search doesn't fit.
const SPENT: Day = Day {
    folder: TWO_ZONES,
    lines: &[
        "mari 1 2025-03-12 96 1",
        "run 1 1 scheduled unpublished 1",
        "total-operator TA 0.0000 0.0000 0.0000",
        "total-operator TB 0.0000 0.0000 0.0000",
        "total-provider P1 0.0000",
        "total-provider P2 0.0000",
        "done 0 1",
    ],
};

const OF_SPENT: &[Row] = &[
    (
        0,
        "mari 1 2025-03-12 96 1",
        1000,
        "value 1 1000\nrun 1 unpublished\ndone 0 1\n",
        ValueEnd::Valid {
            published: 0,
            unpublished: 1,
        },
    ),
    (
        0,
        "mari 1 2025-03-12 96 3",
        1000,
        "value 1 1000\n",
        ValueEnd::Invalid { run: 1, fault: 9 },
    ),
];

/// What `more` MW more on each limit are worth, of a text that comes in pieces of `piece` bytes.
fn reported_of(
    alloc: Global,
    books: &Books,
    text: &[u8],
    piece: u32,
    more: u32,
) -> Result<Valued, Fail>
    requires { IsAccepted books.now }
{
    if more == 0 || more > 1_000 {
        return Err("limits are raised by 1 to 1,000 MW".into());
    }
    let mut shelf = shelf_of(alloc, text, piece)?;
    let reported = value_stream(alloc, books, &mut shelf, "F/publication.txt", more);
    drop(shelf);
    Ok(reported?)
}

/// The values of a row of a day.
fn reported_in(alloc: Global, day: &Day, row: &Row, piece: u32) -> Result<Valued, Fail> {
    let text = text_with(alloc, day, row.0, row.1.as_bytes())?;
    let books = books(alloc, &day.folder)?;
    let reported = reported_of(alloc, &books, &text, piece, row.2);
    drop(books);
    drop(text);
    reported
}

#[test]
fn limits_are_valued_up_to_the_first_fault_of_the_check_or_the_text(
    rt: HostRuntime,
) -> Result<(), Fail> {
    for (day, rows) in &[(FULL, OF_FULL), (SPENT, OF_SPENT)] {
        for row in *rows {
            for piece in &[1, 65_536] {
                let reported = reported_in(rt.alloc(), day, row, *piece)?;
                same_in(&rt, row.1, reported.text.as_slice(), row.3.as_bytes());
                same_in(&rt, row.1, reported.end, row.4);
            }
        }
    }
    Ok(())
}

#[test]
fn a_publication_that_is_not_held_is_missing_and_nothing_is_reported(
    rt: HostRuntime,
) -> Result<(), Fail> {
    let alloc = rt.alloc();
    let books = books(alloc, &TWO_ZONES)?;
    let mut shelf = shelf_of(alloc, b"", 1)?;
    let reported = value_stream(alloc, &books, &mut shelf, "F/other.txt", 10);
    drop(shelf);
    drop(books);
    let reported = reported?;
    assert!(rt; reported.text.as_slice().is_empty());
    same(&rt, reported.end, ValueEnd::Fetch(Fetch::Missing));
    Ok(())
}
