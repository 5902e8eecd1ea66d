//! The feed of a page that is read in pieces.

use crate::feed::CASES;
use crate::same::same_in;
use mari_feed::{FeedStop, print_feed};
use mari_io::{FaultPlan, Fetch, MemoryShelf, MemorySink, Name64, Page};
use mari_publish::TextFault;
use mari_units::Items;
use std::alloc::Global;
use std::test::Fail;

/// A day of one run.
const DAY: &str = "mari 1 2025-03-12 96 10000
run 1 1 scheduled published
welfare 599694000
zone Z 50.00 50.00 50.00 1
bid u1 60
demand 1 60
tree 1
bound 50.00
operator T 0.0000 0.0000 0.0000
provider P 750.0000
end 1
total-operator T 0.0000 0.0000 0.0000
total-provider P 750.0000
done 1 0
";

/// A page by what stands on it and how many bytes a piece has, the call of the shelf that fails and that of the sink, or
/// 0, and how many bytes the sink takes in a call; how the printing ends, and how many bytes of the day's feed it
/// prints.
struct Row {
    name: &'static str,
    page: (&'static str, &'static str),
    piece: u32,
    fails: (u32, u32),
    most: u32,
    want: Result<(), FeedStop>,
    printed: usize,
}

/// The same day with a line too many.
const LONGER_DAY: &str = "mari 1 2025-03-12 96 10000
run 1 1 scheduled published
welfare 599694000
zone Z 50.00 50.00 50.00 1
bid u1 60
demand 1 60
tree 1
bound 50.00
operator T 0.0000 0.0000 0.0000
provider P 750.0000
end 1
total-operator T 0.0000 0.0000 0.0000
total-provider P 750.0000
done 1 0
branch
";

/// The bytes of the feed's first line, of its first two, and of all three.
const LINES: [usize; 3] = [51, 368, 469];

const ROWS: &[Row] = &[
    Row {
        name: "in single bytes",
        page: ("F/publication.txt", DAY),
        piece: 1,
        fails: (0, 0),
        most: 1_000,
        want: Ok(()),
        printed: LINES[2],
    },
    Row {
        name: "in one piece, and taken in single bytes",
        page: ("F/publication.txt", DAY),
        piece: 65_536,
        fails: (0, 0),
        most: 1,
        want: Ok(()),
        printed: LINES[2],
    },
    Row {
        name: "a quantity that isn't printed so",
        page: (
            "F/publication.txt",
            "mari 1 2025-03-12 96 10000\nrun 1 1 scheduled published\nwelfare 07\n",
        ),
        piece: 9,
        fails: (0, 0),
        most: 1_000,
        want: Err(FeedStop::Text(TextFault::BadLine(3))),
        printed: LINES[0],
    },
    Row {
        name: "a line out of its place",
        page: (
            "F/publication.txt",
            "mari 1 2025-03-12 96 10000\nwelfare 7\n",
        ),
        piece: 9,
        fails: (0, 0),
        most: 1_000,
        want: Err(FeedStop::Text(TextFault::BadOrder(2))),
        printed: LINES[0],
    },
    Row {
        name: "a text that is cut off",
        page: ("F/publication.txt", "mari 1 2025-03-12 96 10000\nrun 1 1"),
        piece: 9,
        fails: (0, 0),
        most: 1_000,
        want: Err(FeedStop::Text(TextFault::Truncated(2))),
        printed: LINES[0],
    },
    Row {
        name: "a line after the last one",
        page: ("F/publication.txt", LONGER_DAY),
        piece: 65_536,
        fails: (0, 0),
        most: 1_000,
        want: Err(FeedStop::Text(TextFault::BadOrder(15))),
        printed: LINES[2],
    },
    Row {
        name: "no text",
        page: ("F/publication.txt", ""),
        piece: 9,
        fails: (0, 0),
        most: 1_000,
        want: Err(FeedStop::Text(TextFault::Truncated(1))),
        printed: 0,
    },
    Row {
        name: "no such page",
        page: ("F/other.txt", DAY),
        piece: 9,
        fails: (0, 0),
        most: 1_000,
        want: Err(FeedStop::Fetch(Fetch::Missing)),
        printed: 0,
    },
    Row {
        name: "a page that can't be opened",
        page: ("F/publication.txt", DAY),
        piece: 9,
        fails: (1, 0),
        most: 1_000,
        want: Err(FeedStop::Fetch(Fetch::Failed)),
        printed: 0,
    },
    Row {
        name: "a second piece that isn't given",
        page: ("F/publication.txt", DAY),
        piece: 100,
        fails: (3, 0),
        most: 1_000,
        want: Err(FeedStop::Fetch(Fetch::Failed)),
        printed: LINES[0],
    },
    Row {
        name: "a write that fails",
        page: ("F/publication.txt", DAY),
        piece: 9,
        fails: (0, 3),
        most: 10,
        want: Err(FeedStop::Sink),
        printed: 20,
    },
    Row {
        name: "a sink that takes nothing",
        page: ("F/publication.txt", DAY),
        piece: 9,
        fails: (0, 0),
        most: 0,
        want: Err(FeedStop::Sink),
        printed: 0,
    },
];

/// A plan by which this call fails, or none where it is 0.
fn plan_of(alloc: Global, call: u32) -> Result<FaultPlan, Fail> {
    let mut calls = Vec::new(alloc);
    if call > 0 {
        calls.push(call)?;
    }
    Ok(FaultPlan {
        calls: Items::of(calls),
    })
}

/// A shelf that holds this page alone.
fn shelf_of(alloc: Global, row: &Row) -> Result<MemoryShelf, Fail> {
    let (name, text) = row.page;
    if name.is_empty() || name.len() > 64 || row.piece == 0 || row.piece > 65_536 {
        return Err("a name has 1 to 64 bytes, and a piece 1 to 65,536".into());
    }
    let plan = plan_of(alloc, row.fails.0)?;
    let bytes = Items::of(text.as_bytes().to_vec(alloc)?);
    let name = Name64::of(alloc, name)?;
    let pages = vec![in alloc; Page { name, bytes }]?;
    Ok(MemoryShelf::with_piece(pages, plan, row.piece))
}

/// How the printing ends, and what the sink has taken then.
fn printed(alloc: Global, row: &Row) -> Result<(Result<(), FeedStop>, Vec<u8>), Fail> {
    let mut shelf = shelf_of(alloc, row)?;
    let plan = plan_of(alloc, row.fails.1)?;
    let mut sink = MemorySink::new(alloc, row.most, 1_000, plan)?;
    let end = print_feed(alloc, &mut shelf, "F/publication.txt", &mut sink);
    let taken = sink.bytes().to_vec(alloc);
    drop(sink);
    drop(shelf);
    Ok((end, taken?))
}

/// The feed of the day: the first three cases, a line for each.
fn feed(alloc: Global) -> Result<Vec<u8>, Fail> {
    let mut feed = Vec::new(alloc);
    for case in CASES.iter().take(3) {
        feed.extend_from_slice(case.json.as_bytes())?;
        feed.push(b'\n')?;
    }
    Ok(feed)
}

#[test]
fn a_page_is_printed_up_to_its_end_or_the_first_fault(rt: HostRuntime) -> Result<(), Fail> {
    let alloc = rt.alloc();
    for row in ROWS {
        let (end, taken) = printed(alloc, row)?;
        same_in(&rt, row.name, end, row.want);
        let feed = feed(alloc)?;
        let want = feed.get(..row.printed).ok_or("the feed is longer")?;
        same_in(&rt, row.name, taken.as_slice(), want);
    }
    Ok(())
}
