//! Folders that give books and folders that give none, and the text of a day.

use crate::folder::{ONE_ZONE, Pages, books, plan, read};
use crate::same::{same, same_in};
use mari_day::{BooksFault, DayEnd, File, file_name, run_day};
use mari_io::{Fetch, MemorySink};
use mari_market::{Cleared, Clearer, Market};
use mari_merit::clear_plain;
use mari_remain::Books;
use mari_units::Refusal;
use std::alloc::Global;
use std::test::Fail;

/// A day on which clocks go forward.
const SPRING: Pages = Pages {
    day: b"date,rule\n2025-03-30,\"CET-1CEST,M3.5.0,M10.5.0/3\"\n",
    ..ONE_ZONE
};

/// A day on which they go back.
const AUTUMN: Pages = Pages {
    day: b"date,rule\n2025-10-26,\"CET-1CEST,M3.5.0,M10.5.0/3\"\n",
    ..ONE_ZONE
};

/// Three zones and two borders, whose limits are stated for each run.
const LIMITS_PER_RUN: Pages = Pages {
    zones: b"zone,operator\nZ,T\nA,TA\nB,TB\n",
    borders: b"from,to\nA,B\nB,Z\n",
    limits: Some(b"run,from,to,limit,back\n2,A,B,50,7\n"),
    ..ONE_ZONE
};

/// The same with an empty page of limits.
const EMPTY_LIMITS: Pages = Pages {
    limits: Some(b""),
    ..LIMITS_PER_RUN
};

/// The same with no page of limits, and with an empty first page.
const NO_LIMITS: Pages = Pages {
    day: b"",
    limits: None,
    ..LIMITS_PER_RUN
};

/// A bid of the last quarter of a day of 92, and one of the quarter after it.
const BID_92: &[u8] =
    b"id,provider,zone,quarter,direction,price,least,greatest,kind\nu1,P,Z,92,up,50.00,0,100,both\n";

const BID_93: &[u8] =
    b"id,provider,zone,quarter,direction,price,least,greatest,kind\nu1,P,Z,93,up,50.00,0,100,both\n";

const BID_97: &[u8] =
    b"id,provider,zone,quarter,direction,price,least,greatest,kind\nu1,P,Z,97,up,50.00,0,100,both\n";

const BID_101: &[u8] =
    b"id,provider,zone,quarter,direction,price,least,greatest,kind\nu1,P,Z,101,up,50.00,0,100,both\n";

/// A page in the place of a folder's own.
type Change = (File, &'static [u8]);

/// The pages of a folder with some in the place of their own.
fn with(folder: &Pages, changes: &[Change]) -> Pages {
    let mut pages = *folder;
    for (file, page) in changes {
        match file {
            File::Day => pages.day = *page,
            File::Zones => pages.zones = *page,
            File::Borders => pages.borders = *page,
            File::Bids => pages.bids = *page,
            File::Links => pages.links = *page,
            File::Runs => pages.runs = *page,
            File::Demands => pages.demands = *page,
            File::Limits => pages.limits = Some(*page),
        }
    }
    pages
}

/// What is reported of a folder: how many quarters and borders it has, and whether limits for each run; or why it gives
/// no books.
type Reported = Result<(u32, usize, bool), BooksFault>;

fn reported(read: Result<Books, BooksFault>) -> Reported {
    match read {
        Ok(books) => {
            let borders = books.borders.borders.as_slice().len();
            let reported = (books.quarters, borders, books.limits.is_some());
            drop(books);
            Ok(reported)
        }
        Err(fault) => Err(fault),
    }
}

/// What is reported of a folder with these changes, where the fetches of these numbers fail.
fn reported_of(
    alloc: Global,
    folder: &Pages,
    changes: &[Change],
    faults: &[u32],
) -> Result<Reported, Fail> {
    let pages = with(folder, changes);
    Ok(reported(read(alloc, &pages, faults)?))
}

/// A page in the place of a folder's own, and the file, the line and the number of the refusal.
type Refused = (File, &'static [u8], (u8, u32, u8));

/// Refused dates and rules of a clock, and what the day has no quarter for.
const OF_ONE_ZONE: &[Refused] = &[
    (File::Day, b"date\n2025-03-12\n", (1, 1, 1)),
    (
        File::Day,
        b"date,rule\n2025-03-12,UTC0\n2025-03-13\n",
        (1, 3, 2),
    ),
    (File::Day, b"date,rule\n2025-03-12,\xff\n", (1, 2, 3)),
    (File::Day, b"date,rule\n\n", (1, 1, 15)),
    (
        File::Day,
        b"date,rule\nsoon,UTC0\n\n2025-03-12,UTC0\n",
        (1, 3, 15),
    ),
    (File::Day, b"date,rule\n2025-02-29,none\n", (1, 2, 11)),
    (File::Day, b"date,rule\n9999-12-31,none\n", (1, 2, 12)),
    (File::Day, b"date,rule\n9999-12-31,UTC0\n", (1, 2, 14)),
    (
        File::Day,
        b"date,rule\n2025-03-30,\"AAA-1BBB-1:10,M3.5.0,M10.5.0/3\"\n",
        (1, 2, 13),
    ),
    (File::Bids, BID_97, (4, 2, 14)),
    (File::Bids, BID_101, (4, 2, 14)),
    (
        File::Runs,
        b"run,quarter,kind,reference\n1,97,direct,40.00\n",
        (6, 2, 13),
    ),
];

/// Quarters that a short day doesn't have.
const OF_SPRING: &[Refused] = &[
    (File::Bids, BID_93, (4, 2, 14)),
    (File::Bids, BID_97, (4, 2, 14)),
    (File::Bids, BID_101, (4, 2, 14)),
];

/// Limits for each run.
const OF_LIMITS: &[Refused] = &[
    (File::Limits, b"run,from,to,limit\n", (9, 1, 1)),
    (
        File::Limits,
        b"run,from,to,limit,back\n1,A,B,1\n",
        (9, 2, 2),
    ),
    (
        File::Limits,
        b"run,from,to,limit,back\n1,A,B,1,\xff\n",
        (9, 2, 3),
    ),
    (
        File::Limits,
        b"run,from,to,limit,back\n3,B,A,x,1\n",
        (9, 2, 11),
    ),
    (
        File::Limits,
        b"run,from,to,limit,back\n3,B,A,1,1\n",
        (9, 2, 12),
    ),
    (
        File::Limits,
        b"run,from,to,limit,back\n2,B,A,1,1\n",
        (9, 2, 13),
    ),
    (
        File::Limits,
        b"run,from,to,limit,back\n2,A,B,1,1\n2,B,Z,1,1\n2,A,B,1,-1\n",
        (9, 4, 14),
    ),
    (
        File::Limits,
        b"run,from,to,limit,back\n2,A,B,1,100000\n",
        (9, 2, 15),
    ),
];

/// Folders and their refusals. One of another file comes before that of the limits.
const REFUSALS: &[(Pages, &[Refused])] = &[
    (ONE_ZONE, OF_ONE_ZONE),
    (SPRING, OF_SPRING),
    (AUTUMN, &[(File::Bids, BID_101, (4, 2, 14))]),
    (LIMITS_PER_RUN, OF_LIMITS),
    (
        EMPTY_LIMITS,
        &[(File::Demands, b"run,zone,mw,price\n3,Z,70,\n", (7, 2, 12))],
    ),
];

fn refused((file, line, number): (u8, u32, u8)) -> Reported {
    Err(BooksFault::Refused(Refusal { file, line, number }))
}

#[test]
fn a_folder_is_refused_at_its_first_bad_line(rt: HostRuntime) -> Result<(), Fail> {
    for (folder, refusals) in REFUSALS {
        for (file, page, refusal) in *refusals {
            let reported = reported_of(rt.alloc(), folder, &[(*file, *page)], &[])?;
            same(&rt, reported, refused(*refusal));
        }
    }
    Ok(())
}

/// Pages in the place of a folder's own, the fetches that fail, and what is reported.
type Reading = (&'static [Change], &'static [u32], Reported);

/// Folders and what is reported of them: days of 96, 92 and 100 quarters, limits that are fetched where the borders
/// state none, and a page that isn't there, which is reported before any page is read.
const READINGS: &[(Pages, &[Reading])] = &[
    (
        ONE_ZONE,
        &[
            (&[], &[], Ok((96, 0, false))),
            (&[(File::Bids, BID_92)], &[], Ok((96, 0, false))),
            (&[(File::Bids, BID_93)], &[], Ok((96, 0, false))),
            (&[], &[8], Ok((96, 0, false))),
        ],
    ),
    (
        SPRING,
        &[
            (&[], &[], Ok((92, 0, false))),
            (&[(File::Bids, BID_92)], &[], Ok((92, 0, false))),
        ],
    ),
    (
        AUTUMN,
        &[
            (&[], &[], Ok((100, 0, false))),
            (&[(File::Bids, BID_92)], &[], Ok((100, 0, false))),
            (&[(File::Bids, BID_93)], &[], Ok((100, 0, false))),
            (&[(File::Bids, BID_97)], &[], Ok((100, 0, false))),
        ],
    ),
    (
        LIMITS_PER_RUN,
        &[
            (&[], &[], Ok((96, 2, true))),
            (&[], &[8], Err(BooksFault::Fetch(9, Fetch::Failed))),
            (&[], &[9], Ok((96, 2, true))),
        ],
    ),
    (
        NO_LIMITS,
        &[
            (&[], &[], Err(BooksFault::Fetch(9, Fetch::Missing))),
            (&[], &[7], Err(BooksFault::Fetch(7, Fetch::Failed))),
        ],
    ),
];

#[test]
fn a_folder_gives_books_or_the_first_fetch_that_failed(rt: HostRuntime) -> Result<(), Fail> {
    for (folder, readings) in READINGS {
        for (changes, faults, want) in *readings {
            same(
                &rt,
                reported_of(rt.alloc(), folder, changes, faults)?,
                *want,
            );
        }
    }
    Ok(())
}

/// The number of a file and its name.
const NAMES: &[(u8, &str)] = &[
    (1, "day.csv"),
    (7, "demands.csv"),
    (8, "publication.txt"),
    (9, "limits.csv"),
];

#[test]
fn names_of_files_by_their_numbers(rt: HostRuntime) {
    for (number, want) in NAMES {
        assert!(rt; 1 <= *number && *number <= 9);
        same(&rt, file_name(*number), *want);
    }
}

/// Clears one zone without borders and gates by its merit order. For another market it never has the memory.
#[derive(Drop)]
struct ByMeritOrder;

impl Clearer for ByMeritOrder {
    fn clear(&mut self, alloc: Global, market: &Market, _budget: u32) -> Cleared {
        if market.zones != 1
            || !market.borders.as_slice().is_empty()
            || !market.gates.as_slice().is_empty()
        {
            return Cleared::Memory;
        }
        match clear_plain(alloc, market) {
            Ok(clearing) => Cleared::Published(clearing),
            Err(_) => Cleared::Memory,
        }
    }
}

/// How a folder's day ends, and whether this text is written of it.
fn day(alloc: Global, folder: &Pages, text: &str) -> Result<(DayEnd, bool), Fail> {
    let plan = plan(alloc, &[])?;
    let mut sink = MemorySink::new(alloc, 10, 10_000, plan)?;
    let books = books(alloc, folder)?;
    let end = run_day(alloc, &books, 10_000, &mut ByMeritOrder, &mut sink);
    drop(books);
    let is_written = sink.bytes() == text.as_bytes();
    drop(sink);
    Ok((end, is_written))
}

/// A second run whose quarter has a gated bid, which this clearer doesn't clear.
const GATED_AFTER: Pages = Pages {
    bids: b"id,provider,zone,quarter,direction,price,least,greatest,kind\n\
        u1,P,Z,1,up,50.00,0,100,both\nu2,P,Z,2,up,50.00,5,100,both\n",
    runs: b"run,quarter,kind,reference\n1,1,scheduled,40.00\n2,2,scheduled,40.00\n",
    ..SPRING
};

/// The text of a direct run after a scheduled one.
const DIRECT_AFTER_SCHEDULED: &str = "\
mari 1 2025-03-12 96 10000
run 1 1 scheduled published
welfare 699643000
zone Z 50.00 50.00 50.00 1
bid u1 70
demand 1 70
tree 1
bound 50.00
operator T 0.0000 0.0000 0.0000
provider P 875.0000
end 1
run 2 1 direct published
welfare 299847000
zone Z 99999.00 99999.00 99999.00 1
bid u1 30
demand 1 30
tree 1
bound 99999.00
operator T 0.0000 0.0000 0.0000
provider P 749992.5000
end 2
total-operator T 0.0000 0.0000 0.0000
total-provider P 750867.5000
done 2 0
";

/// The text before memory runs out in the second run.
const FIRST_BLOCK: &str = "\
mari 1 2025-03-30 92 10000
run 1 1 scheduled published
welfare 699643000
zone Z 50.00 50.00 50.00 1
bid u1 70
demand 1 70
tree 1
bound 50.00
operator T 0.0000 0.0000 0.0000
provider P 875.0000
end 1
";

/// Folders, the texts that are written of their days, and how they end.
const DAYS: &[(Pages, &str, DayEnd)] = &[
    (
        ONE_ZONE,
        DIRECT_AFTER_SCHEDULED,
        DayEnd::Done {
            published: 2,
            unpublished: 0,
        },
    ),
    (GATED_AFTER, FIRST_BLOCK, DayEnd::Memory),
];

#[test]
fn a_day_is_written_whole_or_up_to_want_of_memory(rt: HostRuntime) -> Result<(), Fail> {
    for (folder, text, end) in DAYS {
        same_in(&rt, text, day(rt.alloc(), folder, text)?, (*end, true));
    }
    Ok(())
}
