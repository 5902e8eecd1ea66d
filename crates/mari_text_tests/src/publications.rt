//! Worked texts, read and printed, and texts with a fault.

ghost use Rattle.mari_publish.specs.Ranges.{HasText};

use crate::same::{same, same_in};
use crate::texts::{DONE_ONE, TWO_ZONES, made};
use mari_publish::TextFault::{BadLine, BadOrder, Truncated};
use mari_publish::{
    Publication, TextFault, block_text, head_text, read_text, total_text, write_text,
};
use mari_units::Memory;
use std::alloc::Global;
use std::process::Abort;
use std::test::Fail;

const HEAD: &str = "mari 1 2025-03-12 96 10000\n";

/// The first lines of a text, up to an operator's total.
const TO_TOTAL: &str = "mari 1 2025-03-12 96 10000
total-operator T 0.0000 0.0000 0.0000
";

/// Up to a zone's line.
const TO_ZONE: &str = "mari 1 2025-03-12 96 10000
run 1 1 scheduled published
welfare 0
zone A 20.00 20.00 20.00 1
";

/// And up to a tree's first line.
const TO_TREE: &str = "mari 1 2025-03-12 96 10000
run 1 1 scheduled published
welfare 0
zone A 20.00 20.00 20.00 1
tree 50000
";

const ZONE: &str = "zone A 20.00 20.00 20.00 1\n";

const OPERATOR: &str = "operator T 0.0000 0.0000 0.0000\n";

const BORDER: &str = "border A B 5 0.0000\n";

const BID: &str = "bid a 5\n";

const DEMAND: &str = "demand 1 5\n";

const PROVIDER: &str = "provider P 0.0000\n";

const TOTAL: &str = "total-operator T 0.0000 0.0000 0.0000\n";

const DONE: &str = "done 0 0\n";

const NOT_PUBLISHED: &str = "run 1 1 direct unpublished 1\n";

const PUBLISHED: &str = "run 1 1 scheduled published
welfare 0
zone A 20.00 20.00 20.00 1
tree 1
branch
operator T 0.0000 0.0000 0.0000
end 1
";

/// What stands after a tree in a text of one run.
const AFTER_TREE: &str = "operator T 0.0000 0.0000 0.0000
end 1
total-operator T 0.0000 0.0000 0.0000
done 1 0
";

/// A text that has a line of each kind once, and runs of both kinds.
const DAY: &str = "mari 1 2025-03-12 96 10000
run 1 1 scheduled published
welfare 0
zone A 20.00 20.00 20.00 1
border A B 5 0.0000
bid a 5
demand 1 5
tree 4
branch
bound 20.00
cut out 1
conflict 1
at 20.00
flows 5
mws 5
operator T 0.0000 0.0000 0.0000
provider P 0.0000
end 1
run 2 1 direct unpublished 5
total-operator T 0.0000 0.0000 0.0000
total-provider P 0.0000
done 1 1
";

/// The same with numbers of more digits, negative ones, and lists of more fields.
const LONG_DAY: &str = "mari 1 2025-03-12 96 10000
run 1 1 scheduled published
welfare 799712000
zone A 20.00 -20.05 99999.00 64
border A B -50 500.0025
bid a1 50
demand 1 80
tree 5
branch
bound 20.00 60.00
cut out 1
cut in 2 64
conflict 1 2 1
at 20.00 -0.05
flows 5 -5 0
mws 5 0
operator TA -250.0000 250.0000 -500.0000
provider P1 250.0075
end 1
run 2 1 direct unpublished 5
total-operator TB 750.0000 250.0000 500.0000
total-provider P2 450.0000
done 1 1
";

/// What stands in a text after a part that it begins with, if it begins with it.
fn after<'a>(
    text: Option<&'a [u8]>,
    part: Result<Vec<u8>, Memory>,
) -> Result<Option<&'a [u8]>, Memory> {
    let part = part?;
    let rest = match text {
        Some(text) => text.strip_prefix(part.as_slice()),
        None => None,
    };
    drop(part);
    Ok(rest)
}

/// Whether these parts of a day make its text: its head, its blocks and its totals.
fn is_text_of_parts(alloc: Global, day: &Publication, text: &str) -> Result<bool, Memory>
    requires { HasText day.now }
{
    let head = head_text(alloc, &day.date, day.quarters, day.budget);
    let mut rest = after(Some(text.as_bytes()), head)?;
    for block in day.blocks.as_slice() {
        rest = after(rest, block_text(alloc, block))?;
    }
    Ok(after(rest, total_text(alloc, day))? == Some(b""))
}

/// Whether a day prints this text.
fn is_text(alloc: Global, day: &Publication, text: &str) -> Result<bool, Memory>
    requires { HasText day.now }
{
    let printed = write_text(alloc, day)?;
    let is_text = printed.as_slice() == text.as_bytes();
    drop(printed);
    Ok(is_text)
}

/// How many quarters, nodes and operators the day of a text has, and whether it prints the text, whole and by parts.
fn read_back(alloc: Global, text: &str) -> Result<(u32, u32, usize, [bool; 2]), Fail> {
    let Ok(day) = read_text(alloc, text.as_bytes()) else {
        return Err(Fail::from("the text is a publication's"));
    };
    let whole = is_text(alloc, &day, text);
    let parts = is_text_of_parts(alloc, &day, text);
    let (quarters, budget) = (day.quarters, day.budget);
    let operators = day.operators.as_slice().len();
    drop(day);
    Ok((quarters, budget, operators, [whole?, parts?]))
}

/// What is read back of the text of these parts.
fn read_back_of(
    alloc: Global,
    parts: &[(&str, u32)],
) -> Result<(u32, u32, usize, [bool; 2]), Fail> {
    let text = made(alloc, parts)?;
    let read = read_back(alloc, &text);
    drop(text);
    read
}

/// The parts of a text, and how many operators its day has.
const DAYS: &[(&[(&str, u32)], usize)] = &[
    (&[(TWO_ZONES, 1), (DONE_ONE, 1)], 2),
    (&[(DAY, 1)], 1),
    (&[(LONG_DAY, 1)], 1),
];

#[test]
fn a_text_reads_back_and_prints_the_same(rt: HostRuntime) -> Result<(), Fail> {
    for (parts, operators) in DAYS {
        let want = (96, 10_000, *operators, [true, true]);
        same(&rt, read_back_of(rt.alloc(), parts)?, want);
    }
    Ok(())
}

/// The fault of a text, if it has one.
fn fault_of(alloc: Global, text: &[u8]) -> Option<TextFault> {
    read_text(alloc, text).err()
}

/// Compares the faults of a text up to each of its bytes.
fn compare_cut(rt: &impl Abort, alloc: Global, text: &[u8]) {
    let mut line: u32 = 1;
    for (count, byte) in text.iter().enumerate() {
        same(rt, fault_of(alloc, &text[..count]), Some(Truncated(line)));
        if *byte == b'\n' {
            line = line.wrapping_add(1);
        }
    }
}

#[test]
fn a_text_cut_at_any_byte_is_truncated_in_its_last_line(rt: HostRuntime) -> Result<(), Fail> {
    let text = made(rt.alloc(), &[(TWO_ZONES, 1), (DONE_ONE, 1)])?;
    compare_cut(&rt, rt.alloc(), text.as_bytes());
    drop(text);
    Ok(())
}

/// Two texts, how often the second comes, what stands after that, and a fault, if there is one.
type Row = (
    &'static str,
    &'static str,
    u32,
    &'static str,
    Option<TextFault>,
);

/// The front of a text, parts with a `|` between them, one of which comes after it some times, what stands after
/// that, and the fault of each of these texts, if they have one.
const FAULTS: &[Row] = &[
    // a text that is cut off
    ("", "|mari 1 2025", 1, "", Some(Truncated(1))),
    (HEAD, "", 1, "", Some(Truncated(2))),
    (TO_TOTAL, "|done 0 0", 1, "", Some(Truncated(3))),
    (TO_TOTAL, DONE, 1, "d", Some(Truncated(4))),
    (TO_TOTAL, DONE, 1, "", None),
    // a line of no form
    (
        HEAD,
        "\n|zone A 20.00 20.00 20.00\n|zone A 20.00 20.00 20.00 65\n\
        |zone A 99999.01 20.00 20.00 1\n|zone A -0.00 20.00 20.00 1\n|bid a 050\n\
        |bid a 100000\n|border A B 199999 0.0000\n|border A B 5 0.0001\n|demand 513 1\n\
        |tree 0\n|cut out 2 1\n|cut out 0\n|flows 1 +2\n\
        |total-provider P 10000000000000000.0025\n",
        1,
        "",
        Some(BadLine(2)),
    ),
    (TO_TOTAL, DONE, 1, "d\n", Some(BadLine(4))),
    // a line in the wrong place
    (
        HEAD,
        "zone A 99999.00 -99999.00 20.00 64\n|bid a 99999\n|border A B -199998 0.0025\n\
        |demand 512 0\n|tree 50000\n|cut in 1 64\n|flows\n|flows 1 -2\n|end 1000\n\
        |total-provider P -10000000000000000.0000\n|done 0 0\n",
        1,
        "",
        Some(BadOrder(2)),
    ),
    // a number that does not agree with the lines before, and a line after the last
    (TO_ZONE, "demand 2 1\n", 1, "", Some(BadOrder(5))),
    (
        TO_ZONE,
        "tree 1\nbranch\noperator T 0.0000 0.0000 0.0000\n",
        1,
        "end 2\n",
        Some(BadOrder(8)),
    ),
    (TO_TOTAL, "done 1 0\n", 1, "", Some(BadOrder(3))),
    (TO_TOTAL, DONE, 2, "", Some(BadOrder(4))),
    // a tree of as many items as it says, or not
    (
        TO_TREE,
        "branch\n",
        49_999,
        AFTER_TREE,
        Some(BadOrder(50_005)),
    ),
    (TO_TREE, "branch\n", 50_000, AFTER_TREE, None),
    (
        TO_TREE,
        "branch\n",
        50_001,
        AFTER_TREE,
        Some(BadOrder(50_006)),
    ),
    // as many runs as there may be, and one more
    (
        HEAD,
        NOT_PUBLISHED,
        1000,
        "total-operator T 0.0000 0.0000 0.0000\ndone 0 1000\n",
        None,
    ),
    (HEAD, NOT_PUBLISHED, 1001, TOTAL, Some(BadOrder(1002))),
    (
        HEAD,
        PUBLISHED,
        1000,
        "total-operator T 0.0000 0.0000 0.0000\ndone 1000 0\n",
        None,
    ),
    (HEAD, PUBLISHED, 1001, TOTAL, Some(BadOrder(7002))),
];

/// The fault of the text that these parts make, if it has one.
fn fault_of_parts(alloc: Global, parts: &[(&str, u32)]) -> Result<Option<TextFault>, Fail> {
    let text = made(alloc, parts)?;
    let fault = fault_of(alloc, text.as_bytes());
    drop(text);
    Ok(fault)
}

/// Compares the faults of the texts of a row.
fn compare_texts(rt: &impl Abort, alloc: Global, row: &Row) -> Result<(), Fail> {
    let (front, parts, times, tail, want) = *row;
    for part in parts.split('|') {
        let fault = fault_of_parts(alloc, &[(front, 1), (part, times), (tail, 1)])?;
        same_in(rt, part, fault, want);
    }
    Ok(())
}

#[test]
fn a_text_has_the_fault_of_its_first_bad_line(rt: HostRuntime) -> Result<(), Fail> {
    for row in FAULTS {
        compare_texts(&rt, rt.alloc(), row)?;
    }
    Ok(())
}

/// A line of `DAY`, the line in its place and how often that comes, what stands after it, and the fault that the text
/// has then, if it has one.
const ALTERED: &[Row] = &[
    // a number in range that other lines do not agree with
    (
        "run 1 1 scheduled published\n",
        "run 1000 1 scheduled published\n",
        1,
        "",
        Some(BadOrder(18)),
    ),
    (DEMAND, "demand 512 5\n", 1, "", Some(BadOrder(7))),
    ("tree 4\n", "tree 1\n", 1, "", Some(BadOrder(10))),
    ("tree 4\n", "tree 50000\n", 1, "", Some(BadOrder(16))),
    ("end 1\n", "end 1000\n", 1, "", Some(BadOrder(18))),
    ("done 1 1\n", "done 0 1\n", 1, "", Some(BadOrder(22))),
    ("done 1 1\n", "done 1000 1\n", 1, "", Some(BadOrder(22))),
    ("done 1 1\n", "done 1 0\n", 1, "", Some(BadOrder(22))),
    ("done 1 1\n", "done 1 1000\n", 1, "", Some(BadOrder(22))),
    // as many lines of a kind as there may be, and one more
    (ZONE, ZONE, 64, "", None),
    (ZONE, ZONE, 65, "", Some(BadOrder(68))),
    (BORDER, BORDER, 256, "", None),
    (BORDER, BORDER, 257, "", Some(BadOrder(261))),
    (BID, BID, 4096, "", None),
    (BID, BID, 4097, "", Some(BadOrder(4102))),
    (OPERATOR, OPERATOR, 64, "", None),
    (OPERATOR, OPERATOR, 65, "", Some(BadOrder(80))),
    (PROVIDER, PROVIDER, 4096, "", None),
    (PROVIDER, PROVIDER, 4097, "", Some(BadOrder(4113))),
    (TOTAL, TOTAL, 64, "", None),
    (TOTAL, TOTAL, 65, "", Some(BadOrder(84))),
    // the demands of a block, with their places
    (DEMAND, "demand # 5\n", 511, "demand 512 5\n", None),
    (
        DEMAND,
        "demand # 5\n",
        511,
        "demand 511 5\n",
        Some(BadOrder(518)),
    ),
    (
        DEMAND,
        "demand # 5\n",
        512,
        "demand 512 5\n",
        Some(BadOrder(519)),
    ),
    (
        DEMAND,
        "demand # 5\n",
        512,
        "demand 513 5\n",
        Some(BadLine(519)),
    ),
];

/// Compares the fault of the day with another line in the place of one.
fn compare_altered(rt: &impl Abort, alloc: Global, row: &Row) -> Result<(), Fail> {
    let (line, other, times, tail, want) = *row;
    let (before, after) = DAY.split_once(line).ok_or("the day has each line")?;
    let parts = [(before, 1), (other, times), (tail, 1), (after, 1)];
    same_in(rt, other, fault_of_parts(alloc, &parts)?, want);
    Ok(())
}

#[test]
fn a_day_with_another_line_has_its_fault(rt: HostRuntime) -> Result<(), Fail> {
    for row in ALTERED {
        compare_altered(&rt, rt.alloc(), row)?;
    }
    Ok(())
}
