//! Texts that are printed into a sink of which one write fails.

use crate::cases::Printed::Whole;
use crate::cases::{
    AT_A_LOSS, Folder, HEAD, ONE_ZONE, TWO_ZONES, TWO_ZONES_DAY, compare, shelf, sink,
};
use std::alloc::Global;
use std::process::Abort;
use std::sync::Wait;
use std::test::Fail;
use std::thread::Threads;

/// A day of one bid and one demand, in its parts after the head.
const ONE_BLOCK: &str = "\
run 1 1 scheduled published
welfare 599694000
zone Z 50.00 50.00 50.00 1
bid u1 60
demand 1 60
tree 1
bound 50.00
operator T 0.0000 0.0000 0.0000
provider P 750.0000
end 1
";

const ONE_TOTALS: &str = "\
total-operator T 0.0000 0.0000 0.0000
total-provider P 750.0000
done 1 0
";

/// The lines of the head and of these parts.
const HEAD_LINE: &str = "{\"budget\":10000,\"date\":\"2025-03-12\",\"quarters\":96}\n";

const BLOCK_LINE: &str =
    "{\"bids\":[{\"id\":\"u1\",\"mw\":60}],\"borders\":[],\"demands\":[60],\"kind\":\"scheduled\",\"operators\":[{\"name\":\"T\",\"net\":0,\"payment\":0,\"rent\":0}],\"providers\":[{\"amount\":300000,\"name\":\"P\"}],\"quarter\":1,\"run\":1,\"tree\":[{\"bound\":[5000]}],\"welfare\":599694000,\"zones\":[{\"area\":1,\"greatest\":5000,\"least\":5000,\"name\":\"Z\",\"price\":5000}]}\n";

const TOTALS_LINE: &str =
    "{\"operators\":[{\"name\":\"T\",\"net\":0,\"payment\":0,\"rent\":0}],\"providers\":[{\"amount\":300000,\"name\":\"P\"}]}\n";

/// A folder with that publication.
const PRINTED: Folder<'static> = Folder {
    publication: Some(&[HEAD, ONE_BLOCK, ONE_TOTALS]),
    ..ONE_ZONE
};

/// The two zones' day as it is printed where it is split, in the parts that are each written at once.
const SPLIT_DAY: &[&str] = &[
    "split 1 2025-03-12 96 10000\n",
    "\
run 1 1 scheduled published
welfare 799712000
zone A 20.00 20.00 20.00 1
zone B 60.00 60.00 60.00 2
border A B 50 500.0000
bid a1 50
bid b1 30
demand 1 80
island 1 799712000
zones A B
tree 1
bound 20.00 60.00
end 1
",
    "done 1 0\n",
];

/// What is printed where the block would lose in the second quarter.
const REJECTED: &str = "\
blocks 1 2 published
welfare 799712000
quarter 1
zone Z 50.00 50.00 50.00 1
bid x1 0
bid p1 40
demand 1 40
quarter 2
zone Z 20.00 20.00 20.00 2
bid x2 0
bid p2 40
demand 1 40
tree 3
branch
bound 50.00 20.00
conflict 2
at 50.00 20.00
flows
mws 20 20 20 20 40 40
end
";

/// The lines of the two zones' run where its limits are raised by 10 MW, and the last line.
const VALUED: &str = "value 1 10\nrun 1\nborder A B 100.0000 100.0000 0.0000 0.0000\ndone 1 0\n";

/// The two zones' block with another certificate.
const BLOCK_WITH_TREE: &str = "\
run 1 1 scheduled published
welfare 799712000
zone A 20.00 20.00 20.00 1
zone B 60.00 60.00 60.00 2
border A B 50 500.0000
bid a1 50
bid b1 30
demand 1 80
tree 1
bound 20.01 60.00
operator TA -250.0000 250.0000 -500.0000
operator TB 750.0000 250.0000 500.0000
provider P1 250.0000
provider P2 450.0000
end 1
";

/// A call, the folder that it finds, and what it prints, in the parts that are each written at once.
struct Writing {
    words: &'static [&'static str],
    folder: Folder<'static>,
    parts: &'static [&'static str],
}

const WRITINGS: &[Writing] = &[
    Writing {
        words: &["clear", "F"],
        folder: TWO_ZONES,
        parts: TWO_ZONES_DAY,
    },
    Writing {
        words: &["split", "F"],
        folder: TWO_ZONES,
        parts: SPLIT_DAY,
    },
    Writing {
        words: &["feed", "F"],
        folder: PRINTED,
        parts: &[HEAD_LINE, BLOCK_LINE, TOTALS_LINE],
    },
    Writing {
        words: &["blocks", "F", "1", "2", "--nodes", "3"],
        folder: AT_A_LOSS,
        parts: &[REJECTED],
    },
    Writing {
        words: &["blocks", "F", "1", "2", "--nodes", "2"],
        folder: AT_A_LOSS,
        parts: &["blocks 1 2 unpublished 1\n"],
    },
    Writing {
        words: &["blocks", "F", "1", "2", "--nodes", "3"],
        folder: Folder {
            blocks: Some("block,bid\nb,none\n"),
            ..AT_A_LOSS
        },
        parts: &["refused blocks.csv 2 12 UnknownBid\n"],
    },
    Writing {
        words: &["value", "F", "10"],
        folder: Folder {
            publication: Some(TWO_ZONES_DAY),
            ..TWO_ZONES
        },
        parts: &[VALUED],
    },
    Writing {
        words: &["value", "F", "10"],
        folder: Folder {
            publication: Some(&[HEAD, BLOCK_WITH_TREE]),
            ..TWO_ZONES
        },
        parts: &["value 1 10\n", "invalid 1 10\n"],
    },
];

/// Makes the call into a sink whose write of this number fails, and compares what the sink took.
fn takes(
    rt: &(impl Abort + Threads + Wait + Sync),
    alloc: Global,
    writing: &Writing,
    call: u32,
    taken: &str,
) -> Result<(), Fail> {
    let shelf = shelf(alloc, writing.folder, &[], false)?;
    let sink = sink(alloc, 10, 10_000, &[call])?;
    let want = (5, Whole(&[taken]));
    compare(rt, alloc, "a sink", writing.words, shelf, sink, want)
}

/// Makes the call once for each write of its parts, by 10 bytes a write: that write fails, and the sink keeps the bytes
/// before it.
fn each_write(
    rt: &(impl Abort + Threads + Wait + Sync),
    alloc: Global,
    writing: &Writing,
) -> Result<(), Fail> {
    let mut taken = String::new(alloc);
    let mut call = 0u32;
    for part in writing.parts {
        for (place, letter) in part.chars().enumerate() {
            if place % 10 == 0 {
                call = call.saturating_add(1);
                takes(rt, alloc, writing, call, &taken)?;
            }
            taken.push(letter)?;
        }
    }
    Ok(())
}

#[test]
fn each_write_that_fails(rt: HostRuntime) -> Result<(), Fail> {
    for writing in WRITINGS {
        each_write(&rt, rt.alloc(), writing)?;
    }
    Ok(())
}
