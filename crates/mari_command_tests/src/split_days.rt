//! Days that are cleared island by island: of many islands, and beside the same days cleared as a whole.

use crate::cases::Printed::Lines;
use crate::cases::{BIDS, DEMANDS, Folder, ONE_ZONE, ROOM, TWO_ZONES, compare, run, shelf, sink};
use mari_workers::FreeTurnstile;
use std::alloc::Global;
use std::process::Abort;
use std::sync::Wait;
use std::test::Fail;
use std::thread::Threads;

/// The pages of a market.
#[derive(Drop)]
struct Pages {
    zones: String,
    bids: String,
    demands: String,
}

/// Zones that nothing joins, each with a bid and a demand of 60 MW.
fn many_islands(alloc: Global, count: u32) -> Result<Pages, Fail> {
    let mut zones = String::from_str(alloc, "zone,operator\n")?;
    let mut bids = String::from_str(alloc, BIDS)?;
    let mut demands = String::from_str(alloc, DEMANDS)?;
    for zone in 0..count {
        zones.push_str(&format!(in alloc; "Z{zone},T\n")?)?;
        bids.push_str(&format!(in alloc; "u{zone},P,Z{zone},1,up,50.00,0,100,both\n")?)?;
        demands.push_str(&format!(in alloc; "1,Z{zone},60,\n")?)?;
    }
    Ok(Pages {
        zones,
        bids,
        demands,
    })
}

#[test]
fn a_run_of_64_islands(rt: HostRuntime) -> Result<(), Fail> {
    let alloc = rt.alloc();
    let made = many_islands(alloc, 64)?;
    let folder = Folder {
        zones: made.zones.as_str(),
        bids: made.bids.as_str(),
        demands: made.demands.as_str(),
        ..ONE_ZONE
    };
    let lines = [
        "welfare 38380416000\n",
        "island 1 599694000\nzones Z0\ntree 1\nbound 50.00\nisland 2 599694000\nzones Z1\n",
        "island 64 599694000\nzones Z63\ntree 1\nbound 50.00\nend 1\ndone 1 0\n",
    ];
    for texts in [
        &["split", "F", "--nodes", "1"],
        &["split", "F", "--workers", "3"],
    ] {
        let shelf = shelf(alloc, folder, &[], false)?;
        let sink = sink(alloc, 1_000, ROOM, &[])?;
        let want = (0, Lines(&lines));
        compare(&rt, alloc, "64 islands", texts, shelf, sink, want)?;
    }
    Ok(())
}

/// In each of two zones a bid of 40 MW or none, for which a demand of 30 MW is too small; nothing joins the zones. The
/// folder `examples/two-islands` has these pages.
const TWO_ISLANDS: Folder<'static> = Folder {
    zones: "zone,operator\nA,TA\nB,TB\n",
    bids: "id,provider,zone,quarter,direction,price,least,greatest,kind\ni1,P,A,1,up,30.00,40,40,both\nu1,P,A,1,up,50.00,0,100,both\ni2,P,B,1,up,30.00,40,40,both\nu2,P,B,1,up,50.00,0,100,both\n",
    demands: "run,zone,mw,price\n1,A,30,\n1,B,30,\n",
    ..ONE_ZONE
};

/// In each of two zones a bid of 10 MW or none and a dearer one, for a demand of 20 MW.
const TWO_GATES: Folder<'static> = Folder {
    zones: "zone,operator\nA,TA\nB,TB\n",
    bids: "id,provider,zone,quarter,direction,price,least,greatest,kind\ni1,P,A,1,up,30.00,10,10,both\nu1,P,A,1,up,50.00,0,100,both\ni2,P,B,1,up,30.00,10,10,both\nu2,P,B,1,up,50.00,0,100,both\n",
    demands: "run,zone,mw,price\n1,A,20,\n1,B,20,\n",
    ..ONE_ZONE
};

/// A day of four runs in three quarters; the folder `examples/linked-day` has these pages.
const LINKED_DAY: Folder<'static> = Folder {
    bids: "id,provider,zone,quarter,direction,price,least,greatest,kind\ny,P,Z,1,up,10.00,0,10,both\nw,P,Z,2,up,20.00,0,10,both\nu,Q,Z,2,up,70.00,0,20,both\nx,P,Z,3,up,20.00,0,10,both\nz,P,Z,3,up,15.00,0,10,both\nv,P,Z,3,up,50.00,0,100,both\n",
    runs: "run,quarter,kind,reference\n1,1,scheduled,40.00\n2,1,direct,40.00\n3,2,scheduled,40.00\n4,3,scheduled,40.00\n",
    demands: "run,zone,mw,price\n1,Z,5,\n2,Z,3,\n3,Z,10,\n4,Z,20,\n",
    links: "kind,first,second\nneeds,x,y\nbars,z,y\ntechnical,w,y\n",
    ..ONE_ZONE
};

/// Two days in one, in zones that nothing joins: in the first, later runs find what earlier ones left.
const TWICE_LINKED: Folder<'static> = Folder {
    zones: "zone,operator\nZ,T\nY,T\n",
    bids: "id,provider,zone,quarter,direction,price,least,greatest,kind\ny,P,Z,1,up,10.00,0,10,both\nw,P,Z,2,up,20.00,0,10,both\nu,Q,Z,2,up,70.00,0,20,both\nx,P,Z,3,up,20.00,0,10,both\nz,P,Z,3,up,15.00,0,10,both\nv,P,Z,3,up,50.00,0,100,both\na,P,Y,1,up,30.00,10,10,both\nb,P,Y,1,up,45.00,0,100,both\nc,P,Y,2,up,35.00,0,100,both\nd,P,Y,3,up,25.00,0,100,both\n",
    demands: "run,zone,mw,price\n1,Z,5,\n1,Y,12,\n2,Z,3,\n2,Y,7,\n3,Z,10,\n3,Y,10,\n4,Z,20,\n4,Y,20,\n",
    ..LINKED_DAY
};

/// What is printed of the activation and of the prices of each run: the lines that both forms have alike.
fn shared_lines(
    rt: &(impl Abort + Threads + Wait + Sync),
    alloc: Global,
    folder: Folder<'_>,
    verb: &str,
) -> Result<String, Fail> {
    let shelf = shelf(alloc, folder, &[], false)?;
    let mut sink = sink(alloc, 1_000, ROOM, &[])?;
    run(rt, alloc, &[verb, "F"], shelf, &mut sink, &FreeTurnstile)?;
    let mut lines = String::new(alloc);
    for line in str::from_utf8(sink.bytes())?.lines() {
        let shared = [
            "run ", "welfare ", "zone ", "border ", "bid ", "demand ", "done ",
        ]
        .iter()
        .any(|word| line.starts_with(*word));
        if shared {
            lines.push_str(line)?;
            lines.push_str("\n")?;
        }
    }
    Ok(lines)
}

#[test]
fn a_split_day_agrees_with_the_cleared_one(rt: HostRuntime) -> Result<(), Fail> {
    let alloc = rt.alloc();
    for folder in [TWO_ISLANDS, TWO_ZONES, TWO_GATES, LINKED_DAY, TWICE_LINKED] {
        let cleared = shared_lines(&rt, alloc, folder, "clear")?;
        let split = shared_lines(&rt, alloc, folder, "split")?;
        assert!(rt; !cleared.is_empty());
        assert!(rt; cleared == split, "{cleared} is split as {split}");
    }
    Ok(())
}
