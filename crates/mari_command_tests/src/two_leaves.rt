//! Two workers at the two leaves of a search, each held until the other has come.

use crate::cases::Printed::Whole;
use crate::cases::{Folder, ONE_ZONE, run, shelf, sink};
use crate::pair::Pair;
use std::sync::atomic::Ordering;
use std::test::Fail;

/// A bid that would lose where it runs, and is cheap enough that its gate is tried.
const TWO_LEAVES: Folder<'static> = Folder {
    bids: "id,provider,zone,quarter,direction,price,least,greatest,kind\ni1,P,Z,1,up,30.00,20,20,both\nu1,P,Z,1,up,90.00,0,10,both\nd1,P,Z,1,down,20.00,0,10,both\n",
    demands: "run,zone,mw,price\n1,Z,10,\n",
    ..ONE_ZONE
};

const BEFORE: &str = "\
mari 1 2025-03-12 96 10000
run 1 1 scheduled published
welfare 99909000
zone Z 90.00 90.00 99999.00 1
bid i1 0
bid u1 10
bid d1 0
demand 1 10
tree 3
branch
";

/// The leaves where the first worker comes to the closed one, and where the second does.
const LEAVES: [&str; 2] = [
    "bound 100.00\nconflict 1\nat 10.01\nflows\nmws 20 0 10 10\n",
    "bound 100.01\nconflict 1\nat 10.00\nflows\nmws 20 0 10 10\n",
];

const AFTER: &str = "\
operator T 0.0000 0.0000 0.0000
provider P 225.0000
end 1
total-operator T 0.0000 0.0000 0.0000
total-provider P 225.0000
done 1 0
";

#[test]
fn two_workers_come_to_two_leaves(rt: HostRuntime) -> Result<(), Fail> {
    let alloc = rt.alloc();
    let shelf = shelf(alloc, TWO_LEAVES, &[], false)?;
    let mut sink = sink(alloc, 100, 10_000, &[])?;
    let words = ["clear", "F", "--workers", "2"];
    let pair = Pair::new();
    let code = run(&rt, alloc, &words, shelf, &mut sink, &pair)?;
    let text = str::from_utf8(sink.bytes())?;
    let [first, second] = LEAVES;
    let one_of = Whole(&[BEFORE, first, AFTER]).is(text)
        || Whole(&[BEFORE, second, AFTER]).is(text);
    let ran_out = pair.ran_out.load(Ordering::SeqCst);
    let at_the_root = pair.at_the_root.load(Ordering::SeqCst);
    let at_leaves = pair.at_leaves.load(Ordering::SeqCst);
    let answers = (code, one_of, ran_out, at_the_root, at_leaves);
    assert_eq!(rt; answers, (0, true, false, 1, 2));
    Ok(())
}
