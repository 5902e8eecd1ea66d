//! The book of bids: what good pages say, and the first refusals of bad ones.

use crate::pages::{Kind, Row, ZONES, compare};
use crate::same::same;
use mari_bids::{Bid, BidBook};
use mari_rows::BookFault;
use mari_units::Cents;
use mari_zones::ZoneBook;
use std::alloc::Global;
use std::test::Fail;

/// A page of three bids of two providers.
const THREE: &[u8] = b"id,provider,zone,quarter,direction,price,least,greatest,kind\n\
u1,P1,B,96,up,99999,9999,9999,both\nd1,P2,A,1,down,-99999.00,0,1,scheduled\nu2,P1,A,001,up,0.5,3,30,both\n";

/// The bids of that page.
const THREE_BIDS: &[Bid] = &[
    Bid {
        provider: 0,
        zone: 1,
        quarter: 96,
        up: true,
        price: Cents(9_999_900),
        least: 9_999,
        greatest: 9_999,
        both: true,
    },
    Bid {
        provider: 1,
        zone: 0,
        quarter: 1,
        up: false,
        price: Cents(-9_999_900),
        least: 0,
        greatest: 1,
        both: false,
    },
    Bid {
        provider: 0,
        zone: 0,
        quarter: 1,
        up: true,
        price: Cents(50),
        least: 3,
        greatest: 30,
        both: true,
    },
];

/// The book of that page.
fn book_of_three(alloc: Global) -> Result<BidBook, BookFault> {
    let zones = ZoneBook::read(alloc, ZONES)?;
    let book = BidBook::read(alloc, THREE, &zones, 96);
    drop(zones);
    book
}

#[test]
fn bids_with_their_providers(rt: HostRuntime) -> Result<(), Fail> {
    let book = book_of_three(rt.alloc())?;
    same(&rt, book.bids.as_slice(), THREE_BIDS);
    let found = (book.ids.find(b"u2"), book.providers.len());
    drop(book);
    same(&rt, found, (Some(2), 2));
    Ok(())
}

/// Last lines of a page of two bids, and what is read of the page.
const LAST_BIDS: &[Row] = &[
    (b"u2,P1,A,1,up,1,0,1\n", Err((3, 2))),
    (b"u2,P1,A,1,up,1,0,1,\xff\n", Err((3, 3))),
    (b"u.2,P1,X,1,up,1,0,1,both\n", Err((3, 11))),
    (b"u2,,A,1,up,1,0,1,both\n", Err((3, 11))),
    (b"u2,P1,A,1.0,up,1,0,1,both\n", Err((3, 11))),
    (b"u2,P1,A,1,Up,1,0,1,both\n", Err((3, 11))),
    (b"u2,P1,A,1,up,1.,0,1,both\n", Err((3, 11))),
    (b"u2,P1,A,1,up,1,+1,1,both\n", Err((3, 11))),
    (b"u2,P1,A,1,up,1,0,,both\n", Err((3, 11))),
    (b"u2,P1,A,1,up,1,0,1,direct\n", Err((3, 11))),
    (b"u1,P1,X,1,up,1,0,1,both\n", Err((3, 12))),
    (b"u2,P1,a,0,up,1,0,1,both\n", Err((3, 13))),
    (b"u2,P1,A,0,up,99999.01,0,1,both\n", Err((3, 14))),
    (b"u2,P1,A,97,up,1,0,1,both\n", Err((3, 14))),
    (b"u2,P1,A,1,up,99999.01,0,1,both\n", Err((3, 15))),
    (b"u2,P1,A,1,up,1,5,0,both\n", Err((3, 15))),
    (b"u2,P1,A,1,up,1,0,10000,both\n", Err((3, 15))),
    (b"u2,P1,A,1,up,1,-1,1,both\n", Err((3, 15))),
    (b"u2,P1,A,1,up,99999.00,9999,9998,both\n", Err((3, 16))),
    (b"u2,P1,A,96,down,1,1,1,scheduled\n", Ok(2)),
];

#[test]
fn each_refusal_of_bids(rt: HostRuntime) -> Result<(), Fail> {
    let front =
        b"id,provider,zone,quarter,direction,price,least,greatest,kind\nu1,P1,A,1,up,1,0,1,both\n";
    compare(&rt, rt.alloc(), Kind::Bids(96), &[(front, 1)], LAST_BIDS)?;
    compare(
        &rt,
        rt.alloc(),
        Kind::Bids(96),
        &[],
        &[(b"id\n", Err((1, 1)))],
    )
}

/// Ends of a page of 4,096 bids of the second quarter and one of the first.
const MORE_BIDS: &[Row] = &[
    (b"", Ok(4_097)),
    (b"d,P,A,2,up,1,0,1,both\n", Err((4_099, 17))),
];

#[test]
fn four_thousand_and_ninety_six_bids_of_a_quarter_and_no_more(rt: HostRuntime) -> Result<(), Fail> {
    let header = b"id,provider,zone,quarter,direction,price,least,greatest,kind\n".as_slice();
    let front = [
        (header, 1),
        (b"b#,P,A,2,up,1,0,1,both\n", 4_096),
        (b"c,P,A,1,up,1,0,1,both\n", 1),
    ];
    compare(&rt, rt.alloc(), Kind::Bids(2), &front, MORE_BIDS)
}
