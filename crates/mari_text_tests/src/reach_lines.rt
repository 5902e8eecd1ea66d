//! What is a line of the second form, and how the lines are written that it has alone.

use crate::same::{same, same_in};
use mari_lines::{FormFault, Heading};
use mari_reach_lines::{
    Claim, put_reach_branch, put_reach_head, put_reach_price, put_reach_run, put_void,
    read_reach_line,
};
use mari_units::{Cents, Quarters, read_name};
use std::alloc::Global;
use std::test::Fail;

/// Texts that are lines of the second form.
const LINES: &[&str] = &[
    "mari 2 2025-03-12 96 10000",
    "run 1 1 scheduled first",
    "run 1000 400 direct within 0.0000",
    "run 2 1 direct within 0.0025",
    "run 2 1 direct within 10000000000000000.0000",
    "branch b1",
    "branch -",
    "price A -99999.00",
    "price A 99999.00",
    "price A 0.05",
    "none",
    "welfare 0",
    "zone A 20.00 20.00 20.00 1",
    "border A B -50 500.0000",
    "bid b1 30",
    "demand 1 80",
    "tree 1",
    "bound 20.00 60.00",
    "cut out 1 3",
    "operator T 0.0000 0.0000 0.0000",
    "provider P 750.0000",
    "end 1",
    "total-operator T 0.0000 0.0000 0.0000",
    "total-provider P 750.0000",
    "done 1 0",
];

/// Texts that are none.
const OTHERS: &[&str] = &[
    "",
    // lines that the first form has alone
    "mari 1 2025-03-12 96 10000",
    "run 1 1 scheduled published",
    "run 1 1 direct unpublished 5",
    "branch",
    "conflict 1 2",
    "at 0.01",
    "flows 5",
    "flows",
    "mws 5",
    "mws",
    // a head
    "mari",
    "mari 2",
    "mari 2 2025-03-12 96",
    "mari 2 2025-03-12 0 10000",
    "mari 2 2025-03-12 96 50001",
    "mari 2 2025-03-1x 96 10000",
    "mari 2 2025-03-12 96 10000 ",
    "mari  2 2025-03-12 96 10000",
    // a run
    "run",
    "run 1 1 scheduled",
    "run 1 1 scheduled ",
    "run 1 1 scheduled first ",
    "run 1 1 scheduled first 0.0000",
    "run 1 1 scheduled First",
    "run 0 1 scheduled first",
    "run 1001 1 scheduled first",
    "run 1 401 scheduled first",
    "run 1 1 both first",
    "run 1 1 scheduled within",
    "run 1 1 scheduled within ",
    "run 1 1 scheduled within -1",
    "run 1 1 scheduled within -0.0025",
    "run 1 1 scheduled within -0.0000",
    "run 1 1 scheduled within 00.0000",
    "run 1 1 scheduled within 01.0000",
    "run 1 1 scheduled within 1",
    "run 1 1 scheduled within 0.0001",
    "run 1 1 scheduled within 10000000000000000.0025",
    "run 1 1 scheduled within 1.0000 1.0000",
    // an item of a tree
    "branch ",
    "branch b1 ",
    "branch b1 b2",
    "branch aAzZ09-_aAzZ09-_a",
    "price",
    "price A",
    "price A ",
    "price  1.00",
    "price A 99999.01",
    "price A -99999.01",
    "price A 1",
    "price A 01.00",
    "price A -0.00",
    "price A 1.00 1.00",
    "none ",
    "none 1",
    "None",
    "bound",
    "cut in",
    "none\n",
];

/// Whether a text is a line of the second form.
fn reads(alloc: Global, text: &str) -> Result<bool, Fail> {
    match read_reach_line(alloc, text.as_bytes()).err() {
        None => Ok(true),
        Some(FormFault::Formless) => Ok(false),
        Some(FormFault::Memory) => Err(Fail::from("there is no memory")),
    }
}

#[test]
fn a_line_of_the_second_form_is_read_in_its_form_alone(rt: HostRuntime) -> Result<(), Fail> {
    for text in LINES {
        same_in(&rt, text, reads(rt.alloc(), text)?, true);
    }
    for text in OTHERS {
        same_in(&rt, text, reads(rt.alloc(), text)?, false);
    }
    Ok(())
}

/// The lines that the second form has alone, one after the other.
fn own_lines(alloc: Global) -> Result<Vec<u8>, Fail> {
    let mut out = Vec::new(alloc);
    let run = Heading {
        run: 1,
        quarter: 1,
        direct: false,
    };
    let date = read_name(alloc, b"2025-03-12")?;
    put_reach_head(alloc, &mut out, &date, 96, 10_000)?;
    put_reach_run(alloc, &mut out, run, Claim::First)?;
    put_reach_run(alloc, &mut out, run, Claim::Within(Quarters(1)))?;
    put_reach_branch(&mut out, b"b1")?;
    put_reach_price(alloc, &mut out, b"A", Cents(-1_000))?;
    put_void(&mut out)?;
    Ok(out)
}

#[test]
fn own_lines_are_written_as_they_are_spelled(rt: HostRuntime) -> Result<(), Fail> {
    let want = b"mari 2 2025-03-12 96 10000
run 1 1 scheduled first
run 1 1 scheduled within 0.0025
branch b1
price A -10.00
none
";
    let out = own_lines(rt.alloc())?;
    same(&rt, out.as_slice() == want.as_slice(), true);
    Ok(())
}
