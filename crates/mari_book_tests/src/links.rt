//! The book of links: what good pages say, and the first refusals of bad ones.

use crate::pages::{Kind, Read, Row, compare, count_of_links, page_of, read_of};
use crate::same::same;
use mari_bids::BidBook;
use mari_links::{BidLinks, LinkBook};
use mari_rows::BookFault;
use mari_units::MOST_PAGE;
use mari_zones::ZoneBook;
use std::alloc::Global;
use std::test::Fail;

/// The bids of a page, in one zone.
fn bids_in(alloc: Global, page: &[u8], quarters: u32) -> Result<BidBook, BookFault> {
    let zones = ZoneBook::read(alloc, b"zone,operator\nA,T\n")?;
    if page.len() > MOST_PAGE {
        drop(zones);
        return Err(BookFault::Memory);
    }
    let bids = BidBook::read(alloc, page, &zones, quarters);
    drop(zones);
    bids
}

/// The links of a page between the bids of another.
fn links_in(alloc: Global, bids: &[u8], quarters: u32, page: &[u8]) -> Result<LinkBook, BookFault> {
    let bids = bids_in(alloc, bids, quarters)?;
    if page.len() > MOST_PAGE {
        drop(bids);
        return Err(BookFault::Memory);
    }
    let links = LinkBook::read(alloc, page, &bids);
    drop(bids);
    links
}

/// Bids of three quarters.
const SIX_BIDS: &[u8] = b"id,provider,zone,quarter,direction,price,least,greatest,kind\n\
a1,P,A,1,up,1,0,1,both\na2,P,A,2,up,1,0,1,both\na3,P,A,3,up,1,0,1,both\nb3,P,A,3,up,1,0,1,both\n\
c3,P,A,3,up,1,1,1,both\nd3,P,A,3,up,1,0,1,both\n";

/// Links of all kinds between them.
const ALL_KINDS: &[u8] =
    b"kind,first,second\nneeds,a3,a2\ngroup,g,a3\nneeds,a3,a1\ngroup,a1,c3\nbars,b3,a1\n\
group,g,b3\nchild,d3,b3\ntechnical,d3,a2\nbars,b3,a2\n";

/// Whether a bid has a gate, its group and its parent; the bids that it needs, those that bar it, and those that bar it
/// where they were activated in a direct run.
type BidRow<'a> = (
    (bool, Option<u32>, Option<u32>),
    (&'a [u32], &'a [u32], &'a [u32]),
);

/// What these links say of each bid.
const SIX_ROWS: &[BidRow<'static>] = &[
    ((false, None, None), (&[], &[], &[])),
    ((false, None, None), (&[], &[], &[])),
    ((true, Some(0), None), (&[1, 0], &[], &[])),
    ((true, Some(0), None), (&[], &[0, 1], &[])),
    ((true, Some(1), None), (&[], &[], &[])),
    ((true, None, Some(3)), (&[], &[], &[1])),
];

/// Whether the links of a bid are those of a row.
fn is_row(links: &BidLinks, row: &BidRow<'_>) -> bool {
    let (needs, bars, technical) = row.1;
    (links.gated, links.group, links.parent) == row.0
        && links.needs.as_slice() == needs
        && links.bars.as_slice() == bars
        && links.technical.as_slice() == technical
}

/// How many of the bids of a book have the links of their rows, and how many bids there are.
fn agreeing(book: &LinkBook) -> (usize, usize) {
    let mut count = 0usize;
    for (links, row) in book.links.as_slice().iter().zip(SIX_ROWS) {
        if is_row(links, row) {
            count = count.saturating_add(1);
        }
    }
    (count, book.links.as_slice().len())
}

#[test]
fn links_of_all_five_kinds(rt: HostRuntime) -> Result<(), Fail> {
    let book = links_in(rt.alloc(), SIX_BIDS, 3, ALL_KINDS)?;
    let agreeing = agreeing(&book);
    drop(book);
    same(&rt, agreeing, (6, 6));
    Ok(())
}

/// Four bids of one quarter.
const FOUR_BIDS: &[u8] = b"id,provider,zone,quarter,direction,price,least,greatest,kind\n\
a,P,A,1,up,1,0,1,both\nb,P,A,1,up,1,0,1,both\nc,P,A,1,up,1,0,1,both\nd,P,A,1,up,1,0,1,both\n";

/// Whether each of four bids has a gate.
fn gated(book: &LinkBook) -> Option<[bool; 4]> {
    match book.links.as_slice() {
        [a, b, c, d] => Some([a.gated, b.gated, c.gated, d.gated]),
        _ => None,
    }
}

#[test]
fn a_bid_that_is_only_a_parent_or_alone_in_its_group_has_a_gate(
    rt: HostRuntime,
) -> Result<(), Fail> {
    let page = b"kind,first,second\nchild,b,a\ngroup,g,c\n";
    let book = links_in(rt.alloc(), FOUR_BIDS, 1, page)?;
    let gated = gated(&book);
    drop(book);
    same(&rt, gated, Some([true, true, true, false]));
    Ok(())
}

/// Last lines of a page of links between six bids, and what is read of the page.
const LAST_LINKS: &[Row] = &[
    (b"group,h\n", Err((5, 2))),
    (b"group,h,\xff\n", Err((5, 3))),
    (b"Group,h,b4\n", Err((5, 11))),
    (b",x9,x9\n", Err((5, 11))),
    (b"group,h.1,x9\n", Err((5, 16))),
    (b"group,h,x9\n", Err((5, 12))),
    (b"child,x9,a1\n", Err((5, 12))),
    (b"needs,a4,x.9\n", Err((5, 12))),
    (b"group,g,a3\n", Err((5, 13))),
    (b"child,b4,a3\n", Err((5, 13))),
    (b"needs,a4,a1\n", Err((5, 13))),
    (b"needs,a4,b4\n", Err((5, 13))),
    (b"bars,a3,a4\n", Err((5, 13))),
    (b"technical,a4,a2\n", Err((5, 13))),
    (b"child,b4,c4\n", Err((5, 14))),
    (b"child,b4,b4\n", Err((5, 14))),
    (b"group,h,a4\n", Err((5, 15))),
    (b"child,c4,a4\n", Err((5, 15))),
    (b"needs,a4,a3\n", Err((5, 15))),
    (b"bars,a4,a3\n", Ok(6)),
    (b"needs,a4,a2\n", Ok(6)),
    (b"technical,a4,a3\n", Ok(6)),
    (b"group,g,b4\n", Ok(6)),
    (b"child,b4,a4\n", Ok(6)),
];

#[test]
fn each_refusal_of_links(rt: HostRuntime) -> Result<(), Fail> {
    let front = b"kind,first,second\ngroup,g,a4\nchild,c4,b4\nneeds,a4,a3\n".as_slice();
    compare(&rt, rt.alloc(), Kind::Links, &[(front, 1)], LAST_LINKS)?;
    compare(
        &rt,
        rt.alloc(),
        Kind::Links,
        &[],
        &[(b"kind,first\n", Err((1, 1)))],
    )
}

/// 512 bids of the second quarter that have a gate, one of the first that has one, and one of the second that has none.
fn many_gates(alloc: Global) -> Result<BidBook, Fail> {
    let header = b"id,provider,zone,quarter,direction,price,least,greatest,kind\n".as_slice();
    let parts = [
        (header, 1),
        (b"b#,P,A,2,up,1,1,1,both\n", 512),
        (b"c,P,A,1,up,1,1,1,both\nd,P,A,2,up,1,0,1,both\n", 1),
    ];
    let page = page_of(alloc, &parts)?;
    let bids = bids_in(alloc, page.as_slice(), 2);
    drop(page);
    Ok(bids?)
}

/// What is read of a page without links between these bids, and of one by which one more has a gate.
fn reads(alloc: Global, bids: &BidBook) -> [Read; 2] {
    [
        read_of(count_of_links(alloc, b"kind,first,second\n", bids)),
        read_of(count_of_links(alloc, b"kind,first,second\ngroup,g,d\n", bids)),
    ]
}

#[test]
fn five_hundred_and_twelve_gates_of_a_quarter_and_no_more(rt: HostRuntime) -> Result<(), Fail> {
    let bids = many_gates(rt.alloc())?;
    let reads = reads(rt.alloc(), &bids);
    drop(bids);
    same(&rt, reads, [Ok(514), Err((1, 17))]);
    Ok(())
}
