//! What is a line, and what isn't one.

use crate::same::same_in;
use crate::texts::made;
use mari_lines::{FormFault, read_line};
use std::alloc::Global;
use std::process::Abort;
use std::test::Fail;

/// Lines with a `*` where a field stands, fields with which they are lines, and fields with which they aren't, each
/// with a `|` between them.
struct Fields {
    lines: &'static str,
    good: &'static str,
    bad: &'static str,
}

const FIELDS: &[Fields] = &[
    // a quarter
    Fields {
        lines: "mari 1 2025-03-12 * 10000|run 1 * scheduled published\
            |run 2 * direct unpublished 5",
        good: "1|400",
        bad: "0|401",
    },
    // a budget, a count of nodes, and one of a tree's items
    Fields {
        lines: "mari 1 2025-03-12 96 *|run 2 1 direct unpublished *|tree *",
        good: "1|50000",
        bad: "0|50001",
    },
    // a run's number
    Fields {
        lines: "run * 1 scheduled published|run * 1 direct unpublished 5|end *",
        good: "1|1000",
        bad: "0|1001",
    },
    // a welfare
    Fields {
        lines: "welfare *",
        good: "0|9223372036854775807",
        bad: "-1|9223372036854775808",
    },
    // a price
    Fields {
        lines: "zone A * 20.00 20.00 1|zone A 20.00 * 20.00 1|zone A 20.00 20.00 * 1\
            |bound 20.00 *|at 20.00 *",
        good: "-99999.00|99999.00",
        bad: "-99999.01|99999.01",
    },
    // the number of a zone, and that of an area
    Fields {
        lines: "zone A 20.00 20.00 20.00 *|cut in *|conflict 1 *",
        good: "1|64",
        bad: "0|65",
    },
    // a flow
    Fields {
        lines: "border A B * 0.0000|flows 5 *",
        good: "-199998|199998",
        bad: "-199999|199999",
    },
    // a number of MW
    Fields {
        lines: "bid a *|demand 1 *|mws 5 *",
        good: "0|99999",
        bad: "-1|100000",
    },
    // the place of a demand
    Fields {
        lines: "demand * 5",
        good: "1|512",
        bad: "0|513",
    },
    // an amount of money
    Fields {
        lines: "border A B 5 *|operator T * 0.0000 0.0000|operator T 0.0000 * 0.0000\
            |operator T 0.0000 0.0000 *|provider P *|total-operator T * 0.0000 0.0000\
            |total-operator T 0.0000 * 0.0000|total-operator T 0.0000 0.0000 *\
            |total-provider P *",
        good: "-10000000000000000.0000|10000000000000000.0000",
        bad: "-10000000000000000.0025|10000000000000000.0025",
    },
    // how many runs were published, or were not
    Fields {
        lines: "done * 1|done 1 *",
        good: "0|1000",
        bad: "-1|1001",
    },
    // a date is four, two and two digits
    Fields {
        lines: "mari 1 * 96 10000",
        good: "0000-00-00|9999-99-99|2025-02-30",
        bad: "|999-99-99|99999-99-99|9999-9-99|9999-999-99|9999-99-9|9999-99-999|9999/99-99\
            |9999-99/99|999:-99-99|9999-/9-99|9999-99-9a|-999-99-99",
    },
    // a name has 1 to 16 letters, digits, hyphens and low lines
    Fields {
        lines: "bid * 5",
        good: "-|_|0|aAzZ09-_aAzZ09-_",
        bad: "|aAzZ09-_aAzZ09-_a|@|[|`|{|/|:|é",
    },
    // a whole number is read in its printed form alone
    Fields {
        lines: "flows *",
        good: "0|-1|10",
        bad: "-0|00|01|-01|+1|1.0|1-|",
    },
    // and a price
    Fields {
        lines: "at *",
        good: "0.00|-0.05|-10.00",
        bad: "-0.00|00.00|01.00|+1.00|1|1.0|1.000|.05",
    },
    // and an amount of money
    Fields {
        lines: "provider P *",
        good: "0.0000|0.0025|-0.0075",
        bad: "-0.0000|00.0000|+0.0025|0.00|0.00250|0.0001|0.0024|.0025",
    },
    // other words make no line
    Fields {
        lines: "*",
        good: "branch",
        bad: "|mari 2 2025-03-12 96 10000|Mari 1 2025-03-12 96 10000|run 1 1 Direct published\
            |run 1 1 direct|run 1 1 direct unpublished|run 2 1 direct published 5|bid a  5\
            |bid a 5 | bid a 5|bid\ta 5|branch\r|branches|branch 1|cut up 1|cut in|cut in 1 1\
            |cut in 1 3 2|bid a 4294967296|bid a 340282366920938463463374607431768211456\
            |welfare 18446744073709551616|welfare 340282366920938463463374607431768211456\
            |flows -18446744073709551616|at 184467440737095516.16\
            |at 3402823669209384634633746074317682114.56\
            |provider P 34028236692093846346337460743176821.1456",
    },
];

/// A list's first words, a field and how often it comes, what stands after, and whether that is a line.
const LISTS: &[(&str, &str, u32, &str, bool)] = &[
    ("bound", " 20.00", 0, "", false),
    ("bound", " 20.00", 1, "", true),
    ("bound", " 20.00", 64, "", true),
    ("bound", " 20.00", 65, "", false),
    ("conflict", " 1", 0, "", false),
    ("conflict", " 1", 64, "", true),
    ("conflict", " 1", 65, "", false),
    ("at", " 20.00", 0, "", false),
    ("at", " 20.00", 64, "", true),
    ("at", " 20.00", 65, "", false),
    ("flows", " 5", 0, "", true),
    ("flows", " 5", 256, "", true),
    ("flows", " 5", 257, "", false),
    ("mws", " 5", 0, "", true),
    ("mws", " 5", 4608, "", true),
    ("mws", " 5", 4609, "", false),
    // a cut has each of 64 zones at most once
    ("cut in", " #", 64, "", true),
    ("cut in", " #", 64, " 64", false),
    ("cut in", " #", 64, " 65", false),
];

/// Whether the text that these parts make is a line.
fn reads(alloc: Global, parts: &[(&str, u32)]) -> Result<bool, Fail> {
    let text = made(alloc, parts)?;
    let fault = read_line(alloc, text.as_bytes()).err();
    drop(text);
    match fault {
        None => Ok(true),
        Some(FormFault::Formless) => Ok(false),
        Some(FormFault::Memory) => Err(Fail::from("there is no memory")),
    }
}

/// Compares whether a line with each of these fields is a line.
fn compare_line<'a>(
    rt: &impl Abort,
    alloc: Global,
    line: &'a str,
    fields: &'a str,
    want: bool,
) -> Result<(), Fail> {
    let (before, after) = line
        .split_once("*")
        .ok_or("each line has a place for a field")?;
    for field in fields.split('|') {
        let read = reads(alloc, &[(before, 1), (field, 1), (after, 1)])?;
        same_in(rt, field, read, want);
    }
    Ok(())
}

/// The same of each of these lines.
fn compare_lines<'a>(
    rt: &impl Abort,
    alloc: Global,
    lines: &'a str,
    fields: &'a str,
    want: bool,
) -> Result<(), Fail> {
    for line in lines.split('|') {
        compare_line(rt, alloc, line, fields, want)?;
    }
    Ok(())
}

#[test]
fn a_field_is_read_within_its_range_and_in_its_form_alone(rt: HostRuntime) -> Result<(), Fail> {
    for fields in FIELDS {
        compare_lines(&rt, rt.alloc(), fields.lines, fields.good, true)?;
        compare_lines(&rt, rt.alloc(), fields.lines, fields.bad, false)?;
    }
    Ok(())
}

#[test]
fn a_list_has_as_many_fields_as_its_kind_allows(rt: HostRuntime) -> Result<(), Fail> {
    let alloc = rt.alloc();
    for (words, field, times, tail, want) in LISTS {
        let read = reads(alloc, &[(words, 1), (field, *times), (tail, 1)])?;
        same_in(&rt, words, read, *want);
    }
    Ok(())
}
