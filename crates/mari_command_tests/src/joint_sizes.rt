//! Two quarter hours that have together as much as a market may have, and more.

use crate::cases::Printed::{Lines, Whole};
use crate::cases::{AT_A_LOSS, BIDS, DEMANDS, Folder, ONE_ZONE, ROOM, compare, shelf, sink};
use std::alloc::Global;
use std::test::Fail;

/// A size of two quarters: its name, the numbers of their borders, bids, gated bids and demands, and whether that is too
/// much.
type Size = (&'static str, u32, u32, u32, u32, bool);

const SIZES: &[Size] = &[
    ("256 borders", 128, 0, 0, 0, false),
    ("258 borders", 129, 0, 0, 0, true),
    ("4,096 bids", 0, 4096, 0, 0, false),
    ("4,097 bids", 0, 4097, 0, 0, true),
    ("512 gates", 0, 0, 512, 0, false),
    ("513 gates", 0, 0, 513, 0, true),
    ("512 demands", 0, 0, 0, 512, false),
    ("513 demands", 0, 0, 0, 513, true),
];

/// `count` borders of 17 zones.
fn borders(alloc: Global, count: u32) -> Result<String, Fail> {
    let mut borders = String::from_str(alloc, "from,to,limit,back\n")?;
    let mut left = count;
    for from in 0..17u32 {
        for to in from + 1..17 {
            if left > 0 {
                left -= 1;
                borders.push_str(&format!(in alloc; "Z{from},Z{to},5,5\n")?)?;
            }
        }
    }
    Ok(borders)
}

/// `plain` bids without a gate and `gated` bids with one, by turns in the first and the second quarter.
fn bids(alloc: Global, plain: u32, gated: u32) -> Result<String, Fail> {
    let mut bids = String::from_str(alloc, BIDS)?;
    for (count, least) in [(plain, 0u32), (gated, 5)] {
        for bid in 0..count {
            let quarter = 1 + bid % 2;
            let record = format!(in alloc;
                "u{least}-{bid},P,Z0,{quarter},up,50.00,{least},5,both\n"
            )?;
            bids.push_str(&record)?;
        }
    }
    Ok(bids)
}

/// `count` demands of 0 MW, by turns in the first and the second run.
fn demands(alloc: Global, count: u32) -> Result<String, Fail> {
    let mut demands = String::from_str(alloc, DEMANDS)?;
    for demand in 0..count {
        let run = 1 + demand % 2;
        demands.push_str(&format!(in alloc; "{run},Z0,0,\n")?)?;
    }
    Ok(demands)
}

/// 17 zones.
const ZONES: &str =
    "zone,operator\nZ0,T\nZ1,T\nZ2,T\nZ3,T\nZ4,T\nZ5,T\nZ6,T\nZ7,T\nZ8,T\nZ9,T\nZ10,T\nZ11,T\nZ12,T\nZ13,T\nZ14,T\nZ15,T\nZ16,T\n";

#[test]
fn two_quarters_at_each_limit_and_beyond_it(rt: HostRuntime) -> Result<(), Fail> {
    let alloc = rt.alloc();
    for size in SIZES {
        let (name, count, plain, gated, wanted, too_large) = *size;
        let borders = borders(alloc, count)?;
        let bids = bids(alloc, plain, gated)?;
        let demands = demands(alloc, wanted)?;
        let folder = Folder {
            zones: ZONES,
            borders: &borders,
            bids: &bids,
            demands: &demands,
            runs: AT_A_LOSS.runs,
            blocks: Some("block,bid\n"),
            ..ONE_ZONE
        };
        let shelf = shelf(alloc, folder, &[], false)?;
        let sink = sink(alloc, 1_000, ROOM, &[])?;
        let words = ["blocks", "F", "1", "2"];
        let refused = (3, Whole(&["refused blocks.csv 1 17 TooLarge\n"]));
        let cleared = (0, Lines(&["blocks 1 2 published\nwelfare 0\nquarter 1\n"]));
        let want = if too_large { refused } else { cleared };
        compare(&rt, alloc, name, &words, shelf, sink, want)?;
    }
    Ok(())
}
