//! The largest market of one run.

use crate::cases::Printed::Lines;
use crate::cases::{BIDS, DEMANDS, Folder, ONE_ZONE, ROOM, compare, shelf, sink};
use std::alloc::Global;
use std::test::Fail;

/// 4,096 bids, the most that a folder may have, which pay for their power.
fn bids(alloc: Global) -> Result<String, Fail> {
    let mut bids = String::from_str(alloc, BIDS)?;
    for bid in 0..4096 {
        let record = format!(in alloc; "u{bid},P,Z,1,up,-99999.00,0,9999,both\n")?;
        bids.push_str(&record)?;
    }
    Ok(bids)
}

#[test]
fn the_most_bids_and_demands_of_a_run(rt: HostRuntime) -> Result<(), Fail> {
    let alloc = rt.alloc();
    let bids = bids(alloc)?;
    let records = "1,Z,99999,\n".repeat(alloc, 512)?;
    let demands = format!(in alloc; "{DEMANDS}{records}")?;
    let folder = Folder {
        bids: &bids,
        demands: &demands,
        ..ONE_ZONE
    };
    let shelf = shelf(alloc, folder, &[], false)?;
    let sink = sink(alloc, 1_000, ROOM, &[])?;
    let lines = [
        "welfare 819109888819200\nzone Z 99999.00 99999.00 99999.00 1\nbid u0 9999\nbid u1 9999\n",
        "provider P 1023887361024.0000\n",
    ];
    let want = (0, Lines(&lines));
    compare(
        &rt,
        alloc,
        "the largest run",
        &["clear", "F"],
        shelf,
        sink,
        want,
    )
}
