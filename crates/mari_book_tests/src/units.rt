//! Numbers, money and names, as files write them and as they are printed.

use crate::same::{same, same_in};
use mari_units::{
    Cents, Mw, NameFault, NumberFault, Quarters, cents_text, euros_text, read_cents, read_mw,
    read_name, whole_text,
};
use std::test::Fail;

/// Prices as files write them.
const PRICES: &[(&str, Result<Cents, NumberFault>)] = &[
    ("50.5", Ok(Cents(5050))),
    ("-0.05", Ok(Cents(-5))),
    ("50", Ok(Cents(5000))),
    ("99999.00", Ok(Cents(9_999_900))),
    ("99999.01", Err(NumberFault::OutOfRange)),
    ("99999999999999999999999", Err(NumberFault::OutOfRange)),
    ("1.234", Err(NumberFault::NotANumber)),
    ("1.", Err(NumberFault::NotANumber)),
    ("", Err(NumberFault::NotANumber)),
    ("+1", Err(NumberFault::NotANumber)),
];

/// Numbers as files write them.
const NUMBERS: &[(&str, Result<Mw, NumberFault>)] = &[
    ("007", Ok(Mw(7))),
    ("-0", Ok(Mw(0))),
    ("10000", Err(NumberFault::OutOfRange)),
    ("1.0", Err(NumberFault::NotANumber)),
];

#[test]
fn numbers_as_files_write_them(rt: HostRuntime) {
    for (text, want) in PRICES {
        same_in(&rt, text, read_cents(text.as_bytes()), *want);
    }
    for (text, want) in NUMBERS {
        same_in(&rt, text, read_mw(text.as_bytes(), 0, 9999), *want);
    }
}

#[test]
fn prices_as_they_are_printed(rt: HostRuntime) -> Result<(), Fail> {
    for (cents, want) in &[(-1000, "-10.00"), (-5, "-0.05"), (0, "0.00")] {
        let text = cents_text(rt.alloc(), Cents(*cents))?;
        same(&rt, text.as_slice(), want.as_bytes());
    }
    let text = whole_text(rt.alloc(), -7)?;
    same(&rt, text.as_slice(), b"-7".as_slice());
    Ok(())
}

#[test]
fn money_as_it_is_printed(rt: HostRuntime) -> Result<(), Fail> {
    for (quarters, want) in &[
        (200_000, "500.0000"),
        (-1, "-0.0025"),
        (-3, "-0.0075"),
        (0, "0.0000"),
    ] {
        let text = euros_text(rt.alloc(), Quarters(*quarters))?;
        same(&rt, text.as_slice(), want.as_bytes());
    }
    Ok(())
}

#[test]
fn names_and_texts_that_are_none(rt: HostRuntime) -> Result<(), Fail> {
    let name = read_name(rt.alloc(), b"a-Z_0123456789xy")?;
    same(&rt, name.bytes(), b"a-Z_0123456789xy".as_slice());
    for text in &["", "a b", "a.b", "a-Z_0123456789xyz"] {
        let fault = read_name(rt.alloc(), text.as_bytes()).err();
        same_in(&rt, text, fault, Some(NameFault::NotAName));
    }
    Ok(())
}
