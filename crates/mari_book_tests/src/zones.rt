//! The books of zones and borders: what good pages say, and the first refusals of bad ones.

use crate::pages::{Kind, Row, ZONES, compare, compare_in, page_of};
use crate::same::same;
use mari_rows::BookFault;
use mari_units::MOST_PAGE;
use mari_zones::{BorderBook, BorderEnds, ZoneBook, version_of};
use std::alloc::Global;
use std::process::Abort;
use std::test::Fail;

#[test]
fn zones_and_their_operators(rt: HostRuntime) -> Result<(), Fail> {
    let page = b"\xef\xbb\xbf\"zone\",operator\r\nA,TA\n\"B\",TB\r\n\n\nC,TA\rD,TC";
    let book = ZoneBook::read(rt.alloc(), page)?;
    same(&rt, book.operators.name_at(1), Some(b"TB".as_slice()));
    same(&rt, book.operator_of.as_slice(), [0, 1, 0, 2].as_slice());
    let counts = (book.zones.len(), book.operators.len());
    let place = book.zones.find(b"D");
    drop(book);
    same(&rt, (counts, place), ((4, 3), Some(3)));
    Ok(())
}

/// Pages of zones, with the line and the check that refuses each.
const REFUSED_ZONES: &[Row] = &[
    (b"", Err((1, 1))),
    (b"zone,operators\nA,TA\n", Err((1, 1))),
    (b"\"zone,operator\"\nA,TA\n", Err((1, 1))),
    (b"zone,operator,\nA,TA\n", Err((1, 1))),
    (b"zone,operator\n!,TA\nB\n", Err((3, 2))),
    (b"zone,operator\nB\n!,TA\n", Err((2, 2))),
    (b"zone,operator\nA,TA\nB\xff,TA,C\n", Err((3, 2))),
    (b"zone,operator\n!,TA\nA,T\xffA\nB\n", Err((3, 3))),
    (b"zone,operator\nA,TA\nA,T!\n", Err((3, 12))),
    (b"zone,operator\nA,\n", Err((2, 12))),
    (b"zone,operator\nA12345678901234567,T\n", Err((2, 12))),
    (b"zone,operator\nA,TA\nA,TB\n", Err((3, 13))),
    (b"zone,operator\n", Err((1, 14))),
];

#[test]
fn each_refusal_of_zones(rt: HostRuntime) -> Result<(), Fail> {
    compare(&rt, rt.alloc(), Kind::Zones, &[], REFUSED_ZONES)
}

/// Ends of a page of 64 zones.
const MORE_ZONES: &[Row] = &[(b"", Ok(64)), (b"Z,T\n", Err((66, 11)))];

#[test]
fn sixty_four_zones_and_no_more(rt: HostRuntime) -> Result<(), Fail> {
    let front = [(b"zone,operator\n".as_slice(), 1), (b"#,T\n", 64)];
    compare(&rt, rt.alloc(), Kind::Zones, &front, MORE_ZONES)
}

/// The borders of a page between the three zones.
fn borders_of(alloc: Global, page: &[u8]) -> Result<BorderBook, BookFault> {
    let zones = ZoneBook::read(alloc, ZONES)?;
    if page.len() > MOST_PAGE {
        drop(zones);
        return Err(BookFault::Memory);
    }
    let borders = BorderBook::read(alloc, page, &zones);
    drop(zones);
    borders
}

/// Compares the borders of a page with these.
fn compare_borders(
    rt: &impl Abort,
    alloc: Global,
    page: &[u8],
    want: &[BorderEnds],
) -> Result<(), Fail> {
    let book = borders_of(alloc, page)?;
    same(rt, book.borders.as_slice(), want);
    drop(book);
    Ok(())
}

/// Borders with limits.
const LIMITED: &[BorderEnds] = &[
    BorderEnds {
        from: 0,
        to: 1,
        limit: 50,
        back: 7,
    },
    BorderEnds {
        from: 2,
        to: 0,
        limit: 0,
        back: 99_999,
    },
];

#[test]
fn borders_between_zones(rt: HostRuntime) -> Result<(), Fail> {
    let page = b"from,to,limit,back\nA,B,50,007\nC,A,-0,99999\n";
    compare_borders(&rt, rt.alloc(), page, LIMITED)
}

/// Pages of borders, with the line and the check that refuses each.
const REFUSED_BORDERS: &[Row] = &[
    (b"from,to,back,limit\n", Err((1, 1))),
    (b"from,to,limit,back\nX,A,1,1\nA,B,1\n", Err((3, 2))),
    (b"from,to,limit,back\nX,A,1,1\nA,B,1,\xff\n", Err((3, 3))),
    (b"from,to,limit,back\nA,B,1,1\nX,A,+1,1\n", Err((3, 12))),
    (b"from,to,limit,back\nA,a,1,1\n", Err((2, 12))),
    (b"from,to,limit,back\nA,A,x,1\n", Err((2, 13))),
    (b"from,to,limit,back\nA,B,1,1\nB,A,x,1\n", Err((3, 14))),
    (b"from,to,limit,back\nA,B,1,1\nA,B,1,1\n", Err((3, 14))),
    (b"from,to,limit,back\nA,B,1,100000\n", Err((2, 15))),
    (b"from,to,limit,back\nA,B,-1,1\n", Err((2, 15))),
    (b"from,to,limit,back\nA,B,+1,1\n", Err((2, 15))),
    (b"from,to,limit,back\nA,B,1,\n", Err((2, 15))),
];

#[test]
fn each_refusal_of_borders(rt: HostRuntime) -> Result<(), Fail> {
    compare(&rt, rt.alloc(), Kind::Borders, &[], REFUSED_BORDERS)
}

/// Pages of borders, and the version of each.
const VERSIONS: &[(&[u8], u8)] = &[
    (b"from,to\n", 2u8),
    (b"\xef\xbb\xbf\r\n\"from\",to", 2),
    (b"from,to,limit,back\n", 1),
    (b"from, to\n", 1),
    (b"to,from\n", 1),
    (b"from\n", 1),
    (b"A,B\nfrom,to\n", 1),
    (b"", 1),
];

/// The version of a page of borders.
fn version(alloc: Global, page: &[u8]) -> Option<u8> {
    if page.len() > MOST_PAGE {
        return None;
    }
    version_of(alloc, page).ok()
}

#[test]
fn the_version_of_a_page_of_borders(rt: HostRuntime) {
    for (page, want) in VERSIONS {
        same(&rt, version(rt.alloc(), page), Some(*want));
    }
}

/// Borders without limits.
const UNLIMITED: &[BorderEnds] = &[
    BorderEnds {
        from: 2,
        to: 0,
        limit: 0,
        back: 0,
    },
    BorderEnds {
        from: 0,
        to: 1,
        limit: 0,
        back: 0,
    },
];

/// Pages of borders without limits, with the line and the check that refuses each.
const REFUSED_PAIRS: &[Row] = &[
    (b"from,to\nA,B,1,1\n", Err((2, 2))),
    (b"from,to\nX,A\nA,\xff\n", Err((3, 3))),
    (b"from,to\nA,B\nA,X\n", Err((3, 12))),
    (b"from,to\nB,B\n", Err((2, 13))),
    (b"from,to\nA,B\nB,C\nB,A\n", Err((4, 14))),
];

#[test]
fn borders_without_limits(rt: HostRuntime) -> Result<(), Fail> {
    compare_borders(&rt, rt.alloc(), b"from,to\nC,A\nA,B\n", UNLIMITED)?;
    compare(&rt, rt.alloc(), Kind::Borders, &[], REFUSED_PAIRS)
}

/// 64 zones: A, B, C and D, and those of the numbers from 1 to 60.
fn many_zones(alloc: Global) -> Result<ZoneBook, Fail> {
    let parts = [
        (b"zone,operator\nA,T\nB,T\nC,T\nD,T\n".as_slice(), 1),
        (b"#,T\n", 60),
    ];
    let page = page_of(alloc, &parts)?;
    if page.len() > MOST_PAGE {
        drop(page);
        return Err("the page is short".into());
    }
    let zones = ZoneBook::read(alloc, page.as_slice());
    drop(page);
    Ok(zones?)
}

/// Ends of a page of 256 borders.
const MORE_BORDERS: &[Row] = &[(b"", Ok(256)), (b"A,B,1,1\n", Err((258, 11)))];

#[test]
fn two_hundred_and_fifty_six_borders_and_no_more(rt: HostRuntime) -> Result<(), Fail> {
    let front = [
        (b"from,to,limit,back\n".as_slice(), 1),
        (b"A,#,1,1\n", 60),
        (b"B,#,1,1\n", 60),
        (b"C,#,1,1\n", 60),
        (b"D,#,1,1\n", 60),
        (b"60,#,1,1\n", 16),
    ];
    let zones = many_zones(rt.alloc())?;
    let compared = compare_in(&rt, rt.alloc(), &zones, Kind::Borders, &front, MORE_BORDERS);
    drop(zones);
    compared
}
