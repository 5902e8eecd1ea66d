//! Printed days, as they were printed and with one line altered, whole and in pieces.

ghost use Rattle.mari_remain.specs.Accepted.{IsAccepted};

use crate::folder::{ONE_ZONE, Pages, TWO_ZONES, books, page, plan};
use crate::same::{same, same_in};
use mari_check::{StreamFault, Verdict, check_day, check_run, check_stream};
use mari_io::MemoryShelf;
use mari_publish::{Block, FullBlock, Publication, TextFault, read_text};
use mari_remain::{Books, Remaining};
use std::alloc::Global;
use std::test::Fail;

/// A folder, and the lines of its day.
pub(crate) struct Day {
    /// The pages of the folder.
    pub folder: Pages,
    /// The lines of its day.
    pub lines: &'static [&'static str],
}

/// Two zones with a border that is full.
pub(crate) const FULL: Day = Day {
    folder: TWO_ZONES,
    lines: &[
        "mari 1 2025-03-12 96 10000",
        "run 1 1 scheduled published",
        "welfare 799712000",
        "zone A 20.00 20.00 20.00 1",
        "zone B 60.00 60.00 60.00 2",
        "border A B 50 500.0000",
        "bid a1 50",
        "bid b1 30",
        "demand 1 80",
        "tree 1",
        "bound 20.00 60.00",
        "operator TA -250.0000 250.0000 -500.0000",
        "operator TB 750.0000 250.0000 500.0000",
        "provider P1 250.0000",
        "provider P2 450.0000",
        "end 1",
        "total-operator TA -250.0000 250.0000 -500.0000",
        "total-operator TB 750.0000 250.0000 500.0000",
        "total-provider P1 250.0000",
        "total-provider P2 450.0000",
        "done 1 0",
    ],
};

/// One zone with no bid and no demand, so that every price is consistent.
const FREE: Day = Day {
    folder: Pages {
        bids: b"id,provider,zone,quarter,direction,price,least,greatest,kind\n",
        runs: b"run,quarter,kind,reference\n1,1,scheduled,40.00\n",
        demands: b"run,zone,mw,price\n",
        ..ONE_ZONE
    },
    lines: &[
        "mari 1 2025-03-12 96 10000",
        "run 1 1 scheduled published",
        "welfare 0",
        "zone Z 40.00 -99999.00 99999.00 1",
        "tree 1",
        "bound 40.00",
        "operator T 0.0000 0.0000 0.0000",
        "end 1",
        "total-operator T 0.0000 0.0000 0.0000",
        "done 1 0",
    ],
};

/// A line in the place of a day's own, the fault of its block, and the run and the fault of the day.
type Row = (usize, &'static str, Option<u8>, Option<(u32, u8)>);

/// Lines of the full day.
const OF_FULL: &[Row] = &[
    (0, "mari 1 2025-03-12 96 10000", None, None),
    (1, "run 1 2 scheduled published", Some(1), Some((1, 1))),
    (4, "zone C 60.00 60.00 60.00 2", Some(2), Some((1, 2))),
    (6, "bid a1 51", Some(3), Some((1, 3))),
    (2, "welfare 799712001", Some(4), Some((1, 4))),
    (4, "zone B 61.00 60.00 60.00 2", Some(5), Some((1, 5))),
    (3, "zone A 20.00 19.00 20.00 1", Some(6), Some((1, 6))),
    (4, "zone B 60.00 60.00 60.00 1", Some(8), Some((1, 8))),
    (10, "branch", Some(9), Some((1, 9))),
    (10, "bound 20.01 60.00", Some(10), Some((1, 10))),
    (
        11,
        "operator TA -250.0000 250.0025 -500.0025",
        Some(11),
        Some((1, 11)),
    ),
    // lines outside the block
    (0, "mari 1 2025-03-13 96 10000", None, Some((0, 1))),
    (
        16,
        "total-operator TA -250.0000 250.0000 -500.0025",
        None,
        Some((1, 12)),
    ),
    (19, "total-provider P2 450.0025", None, Some((1, 12))),
];

/// Prices between the bounds of the day with free prices, of which the nearest to the reference is the right one.
const OF_FREE: &[Row] = &[
    (3, "zone Z 40.00 -99999.00 99999.00 1", None, None),
    (
        3,
        "zone Z 40.01 -99999.00 99999.00 1",
        Some(7),
        Some((1, 7)),
    ),
];

/// Days and lines in the place of their own.
const DAYS: &[(Day, &[Row])] = &[(FULL, OF_FULL), (FREE, OF_FREE)];

/// The text of a day, with this line at this place.
pub(crate) fn text_with(
    alloc: Global,
    day: &Day,
    place: usize,
    line: &[u8],
) -> Result<Vec<u8>, Fail> {
    let mut text = Vec::new(alloc);
    for (at, own) in day.lines.iter().enumerate() {
        let chosen = if at == place { line } else { own.as_bytes() };
        text.extend_from_slice(chosen)?;
        text.push(b'\n')?;
    }
    Ok(text)
}

/// The first block of a day, where it is published.
fn first_block(day: &Publication) -> Option<&FullBlock> {
    match day.blocks.as_slice().first() {
        Some(Block::Published(block)) => Some(block),
        _ => None,
    }
}

/// The fault that is reported of the first run's block.
fn fault_of(alloc: Global, books: &Books, day: &Publication) -> Result<Option<u8>, Fail>
    requires { IsAccepted books.now }
{
    let Some(block) = first_block(day) else {
        return Err("the first block is published".into());
    };
    if books.runs.runs.as_slice().is_empty() {
        return Err("there is a run".into());
    }
    let remaining = Remaining::start(alloc, books)?;
    let made = remaining.market_of(alloc, books, 1)?;
    drop(remaining);
    let found = check_run(alloc, books, 1, &made, block, None);
    drop(made);
    Ok(found?)
}

/// The fault of the first run's block of a text, and the verdict on its day.
fn reported_whole(alloc: Global, books: &Books, text: &[u8]) -> Result<(Option<u8>, Verdict), Fail>
    requires { IsAccepted books.now }
{
    let Ok(day) = read_text(alloc, text) else {
        return Err("the text is a publication's".into());
    };
    let verdict = check_day(alloc, books, &day);
    let found = fault_of(alloc, books, &day);
    drop(day);
    Ok((found?, verdict?))
}

/// A shelf that gives a text in pieces of `piece` bytes.
pub(crate) fn shelf_of(alloc: Global, text: &[u8], piece: u32) -> Result<MemoryShelf, Fail> {
    if piece == 0 || piece > 65_536 {
        return Err("a piece has 1 to 65,536 bytes".into());
    }
    let plan = plan(alloc, &[])?;
    let page = page(alloc, "F/publication.txt", text)?;
    let pages = vec![in alloc; page]?;
    Ok(MemoryShelf::with_piece(pages, plan, piece))
}

/// What is reported of a text that a shelf gives in pieces of `piece` bytes.
fn reported_in_pieces(
    alloc: Global,
    books: &Books,
    text: &[u8],
    piece: u32,
) -> Result<Result<Verdict, StreamFault>, Fail>
    requires { IsAccepted books.now }
{
    let mut shelf = shelf_of(alloc, text, piece)?;
    let reported = check_stream(alloc, books, &mut shelf, "F/publication.txt");
    drop(shelf);
    Ok(reported)
}

/// The fault of a block, the verdict on its day, and that on its text in pieces of one byte.
type Reported = (Option<u8>, Verdict, Result<Verdict, StreamFault>);

/// What is reported of a text.
fn reported_of(alloc: Global, books: &Books, text: &[u8]) -> Result<Reported, Fail>
    requires { IsAccepted books.now }
{
    let (fault, verdict) = reported_whole(alloc, books, text)?;
    Ok((fault, verdict, reported_in_pieces(alloc, books, text, 1)?))
}

/// What is reported of a row of a day.
fn reported_in(alloc: Global, day: &Day, row: &Row) -> Result<Reported, Fail> {
    let text = text_with(alloc, day, row.0, row.1.as_bytes())?;
    let books = books(alloc, &day.folder)?;
    let reported = reported_of(alloc, &books, &text);
    drop(books);
    drop(text);
    reported
}

/// The verdict on a day with this fault, or with none.
fn verdict_of(fault: Option<(u32, u8)>) -> Verdict {
    match fault {
        Some((run, fault)) => Verdict::Invalid { run, fault },
        None => Verdict::Valid {
            published: 1,
            unpublished: 0,
        },
    }
}

#[test]
fn a_day_as_printed_is_valid_and_an_altered_line_is_a_fault(rt: HostRuntime) -> Result<(), Fail> {
    for (day, rows) in DAYS {
        for row in *rows {
            let verdict = verdict_of(row.3);
            let want = (row.2, verdict, Ok(verdict));
            same_in(&rt, row.1, reported_in(rt.alloc(), day, row)?, want);
        }
    }
    Ok(())
}

/// The full day with a line of 40,000 digits for its last one.
fn long_text(alloc: Global) -> Result<Vec<u8>, Fail> {
    let digits = vec![in alloc; b'7'; 40_000]?;
    let text = text_with(alloc, &FULL, 20, &digits);
    drop(digits);
    text
}

/// What is reported of that day in pieces of `piece` bytes, with the end of its last line and without it.
fn reported_of_long(
    alloc: Global,
    books: &Books,
    text: &[u8],
    piece: u32,
) -> Result<[Result<Verdict, StreamFault>; 2], Fail>
    requires { IsAccepted books.now }
{
    let Some((_end, cut_off)) = text.split_last() else {
        return Err("the text is long".into());
    };
    Ok([
        reported_in_pieces(alloc, books, text, piece)?,
        reported_in_pieces(alloc, books, cut_off, piece)?,
    ])
}

#[test]
fn a_line_of_40_000_digits_is_bad_and_without_its_end_truncated(
    rt: HostRuntime,
) -> Result<(), Fail> {
    let alloc = rt.alloc();
    let bad = Err(StreamFault::Text(TextFault::BadLine(21)));
    let cut_off = Err(StreamFault::Text(TextFault::Truncated(21)));
    for piece in &[1, 65_536] {
        let text = long_text(alloc)?;
        let books = books(alloc, &FULL.folder)?;
        let reported = reported_of_long(alloc, &books, &text, *piece);
        drop(books);
        drop(text);
        same(&rt, reported?, [bad, cut_off]);
    }
    Ok(())
}
