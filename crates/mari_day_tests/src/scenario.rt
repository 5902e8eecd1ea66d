//! The pages of a generated day.

use crate::same::{same, same_in};
use mari_io::Page;
use mari_scenario::scenario_pages;
use std::alloc::Global;
use std::test::Fail;

/// A page's name, how many lines it has, and the texts that it begins and ends with.
type Row = (&'static str, usize, &'static str, &'static str);

/// The pages of number 1: 8 zones, 960 bids, 24 runs and 192 demands. The draws run on through the files, so the last
/// line of each depends on all before it.
const PAGES: &[Row] = &[
    (
        "s/day.csv",
        2,
        "date,rule\n2025-03-12,UTC0\n",
        "date,rule\n2025-03-12,UTC0\n",
    ),
    ("s/zones.csv", 9, "zone,operator\nZ1,T1\n", "\nZ8,T4\n"),
    (
        "s/borders.csv",
        11,
        "from,to,limit,back\nZ1,Z2,58,98\nZ2,Z3,53,95\n",
        "\nZ3,Z7,37,66\n",
    ),
    (
        "s/bids.csv",
        961,
        "id,provider,zone,quarter,direction,price,least,greatest,kind\nq1b1,P1,",
        "\nq24b40,P10,Z5,24,up,90.26,22,22,scheduled\n",
    ),
    (
        "s/links.csv",
        73,
        "kind,first,second\ngroup,g1,q1b10\ngroup,g1,q1b15\nchild,q1b25,q1b20\n",
        "\nchild,q24b25,q24b20\n",
    ),
    (
        "s/runs.csv",
        25,
        "run,quarter,kind,reference\n1,1,scheduled,",
        "\n24,24,scheduled,41.90\n",
    ),
    (
        "s/demands.csv",
        193,
        "run,zone,mw,price\n1,Z1,",
        "\n24,Z8,-14,113.51\n",
    ),
];

/// How many lines a page has.
fn lines(page: &Page) -> usize {
    let mut count = 0usize;
    for byte in page.bytes.as_slice() {
        if *byte == b'\n' {
            count = count.saturating_add(1);
        }
    }
    count
}

/// How many lines the page of a place has, where its name and its texts are those of a row.
fn lines_of(pages: &[Page], place: usize, row: &Row) -> Option<usize> {
    let page = pages.get(place)?;
    let bytes = page.bytes.as_slice();
    let is_page = page.name.as_str() == row.0
        && bytes.starts_with(row.2.as_bytes())
        && bytes.ends_with(row.3.as_bytes());
    if is_page { Some(lines(page)) } else { None }
}

/// The number of the pages, and how many lines each has, where it is that of its row.
fn reported(alloc: Global) -> Result<(usize, [Option<usize>; 7]), Fail> {
    let pages = scenario_pages(alloc, 1)?;
    let mut lines = [None; 7];
    for (place, row) in PAGES.iter().enumerate() {
        if place < 7 {
            lines[place] = lines_of(&pages, place, row);
        }
    }
    let count = pages.len();
    drop(pages);
    Ok((count, lines))
}

#[test]
fn pages_of_number_1_are_as_its_draws_say(rt: HostRuntime) -> Result<(), Fail> {
    let (count, lines) = reported(rt.alloc())?;
    same(&rt, count, 7);
    for (place, row) in PAGES.iter().enumerate() {
        same_in(&rt, row.0, lines.get(place), Some(&Some(row.1)));
    }
    Ok(())
}
