//! The pages that state a folder's limits for each run.

ghost use Rattle.mari_remain.specs.Accepted.{IsAccepted};

use crate::folder::{Pages, books};
use crate::remain::{STATED, THREE_RUNS};
use crate::same::same_in;
use mari_remain::{Books, borders_text, limits_text};
use std::alloc::Global;
use std::test::Fail;

/// A folder with one run and a border with the same limit there and back.
const ONE_RUN: Pages = Pages {
    borders: b"from,to,limit,back\nA,B,50,050\n",
    runs: b"run,quarter,kind,reference\n1,1,scheduled,40.00\n",
    demands: b"run,zone,mw,price\n1,B,80,\n",
    ..THREE_RUNS
};

/// Whether the pages that state limits for each run are these.
fn are_pages(alloc: Global, books: &Books, borders: &str, limits: &str) -> Result<[bool; 2], Fail>
    requires { IsAccepted books.now }
{
    let text = borders_text(alloc, books)?;
    let is_borders = text.as_slice() == borders.as_bytes();
    drop(text);
    let text = limits_text(alloc, books)?;
    let is_limits = text.as_slice() == limits.as_bytes();
    drop(text);
    Ok([is_borders, is_limits])
}

/// Whether those of a folder of one border are these limits.
fn has_limits(alloc: Global, folder: &Pages, limits: &str) -> Result<[bool; 2], Fail> {
    let books = books(alloc, folder)?;
    let reported = are_pages(alloc, &books, "from,to\nA,B\n", limits);
    drop(books);
    reported
}

/// Folders of one border, and the pages of their limits.
const LIMITS: &[(Pages, &str)] = &[
    (ONE_RUN, "run,from,to,limit,back\n1,A,B,50,50\n"),
    (
        STATED,
        "run,from,to,limit,back\n1,A,B,50,50\n2,A,B,30,50\n3,A,B,0,0\n",
    ),
];

#[test]
fn pages_of_limits_for_each_run(rt: HostRuntime) -> Result<(), Fail> {
    for (folder, limits) in LIMITS {
        let reported = has_limits(rt.alloc(), folder, limits)?;
        same_in(&rt, limits, reported, [true, true]);
    }
    Ok(())
}
