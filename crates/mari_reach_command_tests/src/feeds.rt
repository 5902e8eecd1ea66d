//! The feed of a small day, and of texts with a fault.

use crate::cases::{Answer, BY_BYTES, WHOLE, compare, shelf, sink};
use crate::days::TWO_ZONES;
use std::alloc::Global;
use std::process::Abort;
use std::test::Fail;

/// The parts of a day that has each kind of item. It is no folder's.
pub(crate) const FED_HEAD: &str = "mari 2 2025-03-12 96 10\n";

pub(crate) const FED_WITHIN: &str = "\
run 1 3 scheduled within 0.2500
welfare 1000
zone A 20.00 -10.00 30.50 1
zone B 20.00 20.00 20.00 1
border A B -40 0.2500
bid p1 40
demand 1 40
tree 5
branch p1
price A -0.01
none
bound -10.00 20.00
cut out 1 2
operator T 0.5000 0.2500 0.2500
provider P 800.0000
end 1
";

pub(crate) const FED_FIRST: &str = "\
run 2 4 direct first
welfare 0
zone A 0.00 0.00 0.00 1
tree 1
cut in 1
operator T 0.0000 0.0000 0.0000
end 2
";

pub(crate) const FED_TOTALS: &str = "\
total-operator T 0.5000 0.2500 0.2500
total-provider P 800.0000
done 1 1
";

/// The line of each of these parts.
pub(crate) const HEAD_LINE: &str = "{\"budget\":10,\"date\":\"2025-03-12\",\"quarters\":96}\n";

pub(crate) const WITHIN_LINE: &str = "\
{\"bids\":[{\"id\":\"p1\",\"mw\":40}],\"borders\":[{\"flow\":-40,\"from\":\"A\",\"rent\":100,\"to\":\"B\"}],\
\"demands\":[40],\"gap\":100,\"kind\":\"scheduled\",\
\"operators\":[{\"name\":\"T\",\"net\":100,\"payment\":200,\"rent\":100}],\"providers\":[{\"amount\":320000,\"name\":\"P\"}],\
\"quarter\":3,\"run\":1,\
\"tree\":[{\"branch\":\"p1\"},{\"price\":-1,\"zone\":\"A\"},\"none\",{\"bound\":[-1000,2000]},{\"cut\":[1,2],\"side\":\"out\"}],\
\"welfare\":1000,\
\"zones\":[{\"area\":1,\"greatest\":3050,\"least\":-1000,\"name\":\"A\",\"price\":2000},\
{\"area\":1,\"greatest\":2000,\"least\":2000,\"name\":\"B\",\"price\":2000}]}\n";

pub(crate) const FIRST_LINE: &str = "\
{\"bids\":[],\"borders\":[],\
\"demands\":[],\"gap\":null,\"kind\":\"direct\",\
\"operators\":[{\"name\":\"T\",\"net\":0,\"payment\":0,\"rent\":0}],\"providers\":[],\
\"quarter\":4,\"run\":2,\
\"tree\":[{\"cut\":[1],\"side\":\"in\"}],\
\"welfare\":0,\
\"zones\":[{\"area\":1,\"greatest\":0,\"least\":0,\"name\":\"A\",\"price\":0}]}\n";

pub(crate) const TOTALS_LINE: &str = "\
{\"operators\":[{\"name\":\"T\",\"net\":100,\"payment\":200,\"rent\":100}],\
\"providers\":[{\"amount\":320000,\"name\":\"P\"}]}\n";

/// A publication in its parts, and what its feed comes to.
type Feed = (&'static [&'static str], Answer<'static>);

const FEEDS: &[Feed] = &[
    (
        &[FED_HEAD, FED_WITHIN, FED_FIRST, FED_TOTALS],
        (0, &[HEAD_LINE, WITHIN_LINE, FIRST_LINE, TOTALS_LINE]),
    ),
    (
        &[FED_HEAD, "done 0 0\n"],
        (3, &[HEAD_LINE, "refused publication.txt 2 12 BadOrder\n"]),
    ),
    (
        &[FED_HEAD, FED_WITHIN, "run 2 4 direct within\n"],
        (
            3,
            &[
                HEAD_LINE,
                WITHIN_LINE,
                "refused publication.txt 18 11 BadLine\n",
            ],
        ),
    ),
    (
        &[FED_HEAD, FED_WITHIN, FED_FIRST],
        (
            3,
            &[
                HEAD_LINE,
                WITHIN_LINE,
                FIRST_LINE,
                "refused publication.txt 25 13 Truncated\n",
            ],
        ),
    ),
    (
        &["mari 1 2025-03-12 96 10\n"],
        (3, &["refused publication.txt 1 11 BadLine\n"]),
    ),
];

/// Feeds the publication of a row, which comes whole and byte by byte.
fn feeds(rt: &impl Abort, alloc: Global, row: &Feed) -> Result<(), Fail> {
    for giving in [WHOLE, BY_BYTES] {
        let shelf = shelf(alloc, &TWO_ZONES, Some(row.0), giving)?;
        compare(rt, alloc, &["feed", "F"], shelf, sink(alloc, &[])?, row.1)?;
    }
    Ok(())
}

#[test]
fn a_feed_has_a_line_for_each_part_up_to_the_first_fault(rt: HostRuntime) -> Result<(), Fail> {
    for row in FEEDS {
        feeds(&rt, rt.alloc(), row)?;
    }
    Ok(())
}
