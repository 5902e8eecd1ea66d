//! Whole numbers: quantities, prices, money, zones and counts.

ghost use Rattle.std.specs.Prelude.{◌≡◌, ◌++◌, OnOk, ◌≤◌, ◌<◌, ◌^◌, ◌≤ℤ◌, neg_ℤ, pos};
ghost use Rattle.serde_json.specs.View.{view};
ghost use Rattle.serde_json.specs.Written.{compact_text};
ghost use Rattle.mari_units.specs.Numbers.{Within};
ghost use Rattle.mari_market.specs.Clearing.{IsBudget};
ghost use Rattle.mari_market.specs.Price.{IsCapped};
ghost use Rattle.mari_units.specs.declared.limits.TheConstants.{MOST_QUARTERS as QUARTERS, MOST_RUNS as RUNS, MOST_ZONES as ZONES};
ghost use Rattle.mari_lines.specs.Ranges.{Between, IsMoney, IsZone};
ghost use Rattle.mari_feed.specs.Reading.{Reads};
ghost use Rattle.mari_feed.specs.Values.{natural, whole, price_value, money_value, zone_number};

use crate::fault::FeedFault;
use crate::form::{Form, Printed};
use itoa::Buffer;
use mari_lines::MOST_MONEY;
use mari_units::{
    CAP, Cents, MOST_FLOW, MOST_MW, MOST_NODES, MOST_QUARTERS, MOST_RUNS, MOST_ZONES, Memory,
    Quarters, put,
};
use serde_json::Value;
use std::alloc::Global;

/// Appends a few bytes. Up to four of them are copied without a call, which takes half the time.
#[inline(always)]
fn put_short(text: &mut Vec<u8>, bytes: &[u8]) -> Result<(), Memory>
    ensures { OnOk result (text.new.items ≡ text.old.items ++ bytes.now) }
{
    match bytes {
        [first, second, third, fourth] => put(text, &[*first, *second, *third, *fourth]),
        [first, second, third] => put(text, &[*first, *second, *third]),
        [first, second] => put(text, &[*first, *second]),
        [first] => put(text, &[*first]),
        _ => put(text, bytes),
    }
}

/// Appends a number from 0, in digits.
#[inline(always)]
fn put_natural(text: &mut Vec<u8>, number: u64) -> Result<(), Memory>
    ensures { OnOk result (text.new.items ≡ text.old.items ++ compact_text (natural number)) }
{
    let mut buffer = Buffer::new();
    put_short(text, buffer.format(number).as_bytes())
}

/// Appends a number of either sign, in digits.
#[inline(always)]
fn put_whole(text: &mut Vec<u8>, number: i64) -> Result<(), Memory>
    ensures { OnOk result (text.new.items ≡ text.old.items ++ compact_text (whole number)) }
{
    let mut buffer = Buffer::new();
    put_short(text, buffer.format(number).as_bytes())
}

/// The number from `least` to `greatest` that has this value.
pub fn read_natural(value: &Value, least: u64, greatest: u64) -> Result<u64, FeedFault>
    ensures { Reads (Between least greatest) natural (view value.now) result }
{
    let Some(number) = value.as_u64() else {
        return Err(FeedFault::NotAPart);
    };
    if number < least {
        return Err(FeedFault::NotAPart);
    }
    if number > greatest {
        return Err(FeedFault::NotAPart);
    }
    Ok(number)
}

/// The same of a number of 32 bits.
pub fn read_number(value: &Value, least: u32, greatest: u32) -> Result<u32, FeedFault>
    ensures { Reads (Between least greatest) natural (view value.now) result }
{
    let number = read_natural(value, u64::from(least), u64::from(greatest))?;
    Ok(number as u32)
}

/// The number of either sign, from `-greatest` to `greatest`, that has this value.
fn read_whole(value: &Value, greatest: i64) -> Result<i64, FeedFault>
    requires { pos 0 ≤ℤ greatest }
    ensures { Reads (λ z. (neg_ℤ greatest ≤ℤ z) × (z ≤ℤ greatest)) whole (view value.now) result }
{
    let Some(number) = value.as_number() else {
        return Err(FeedFault::NotAPart);
    };
    let Some(number) = number.as_i64() else {
        return Err(FeedFault::NotAPart);
    };
    if number < -greatest {
        return Err(FeedFault::NotAPart);
    }
    if number > greatest {
        return Err(FeedFault::NotAPart);
    }
    Ok(number)
}

/// A quantity of an order, in MW.
pub struct Megawatts;

impl Printed for Megawatts {
    ghost use Rattle.mari_units.specs.declared.limits.TheConstants.{MOST_MW};

    type Item = u32;

    ghost written = { natural };

    ghost InItsRange = { λ mw. mw ≤ MOST_MW };

    fn put(text: &mut Vec<u8>, mw: &u32) -> Result<(), Memory> {
        put_natural(text, u64::from(*mw))
    }
}

impl Form for Megawatts {
    fn read(_alloc: Global, value: &Value) -> Result<u32, FeedFault> {
        read_number(value, 0, MOST_MW)
    }
}

/// A flow over a border, in MW.
pub struct Flow;

impl Printed for Flow {
    ghost use Rattle.mari_units.specs.declared.limits.TheConstants.{MOST_FLOW};

    type Item = i64;

    ghost written = { whole };

    ghost InItsRange = { λ flow. Within MOST_FLOW flow };

    fn put(text: &mut Vec<u8>, flow: &i64) -> Result<(), Memory> {
        put_whole(text, *flow)
    }
}

impl Form for Flow {
    fn read(_alloc: Global, value: &Value) -> Result<i64, FeedFault> {
        read_whole(value, i64::from(MOST_FLOW))
    }
}

/// A zone's number: from 1 in the feed, and from 0 elsewhere.
pub struct ZoneNumber;

impl Printed for ZoneNumber {
    type Item = u32;

    ghost written = { zone_number };

    ghost InItsRange = { IsZone };

    fn put(text: &mut Vec<u8>, zone: &u32) -> Result<(), Memory> {
        put_natural(text, u64::from(*zone + 1))
    }
}

impl Form for ZoneNumber {
    fn read(_alloc: Global, value: &Value) -> Result<u32, FeedFault> {
        let number = read_number(value, 1, MOST_ZONES as u32)?;
        Ok(number - 1)
    }
}

/// A welfare, in quarter-cents.
pub struct Welfare;

impl Printed for Welfare {
    type Item = u64;

    ghost written = { natural };

    ghost InItsRange = { λ welfare. welfare < 2 ^ 63 };

    fn put(text: &mut Vec<u8>, welfare: &u64) -> Result<(), Memory> {
        put_natural(text, *welfare)
    }
}

impl Form for Welfare {
    fn read(_alloc: Global, value: &Value) -> Result<u64, FeedFault> {
        read_natural(value, 0, i64::MAX as u64)
    }
}

impl Printed for Cents {
    type Item = Cents;

    ghost written = { price_value };

    ghost InItsRange = { IsCapped };

    fn put(text: &mut Vec<u8>, price: &Cents) -> Result<(), Memory> {
        put_whole(text, price.0)
    }
}

impl Form for Cents {
    fn read(_alloc: Global, value: &Value) -> Result<Cents, FeedFault> {
        Ok(Cents(read_whole(value, CAP)?))
    }
}

impl Printed for Quarters {
    type Item = Quarters;

    ghost written = { money_value };

    ghost InItsRange = { IsMoney };

    fn put(text: &mut Vec<u8>, money: &Quarters) -> Result<(), Memory> {
        put_whole(text, money.0 as i64)
    }
}

impl Form for Quarters {
    fn read(_alloc: Global, value: &Value) -> Result<Quarters, FeedFault> {
        let money = read_whole(value, MOST_MONEY as i64)?;
        Ok(Quarters(i128::from(money)))
    }
}

/// The number of an area.
pub struct Area;

impl Printed for Area {
    type Item = u32;

    ghost written = { natural };

    ghost InItsRange = { λ n. Between 1 ZONES n };

    fn put(text: &mut Vec<u8>, number: &u32) -> Result<(), Memory> {
        put_natural(text, u64::from(*number))
    }
}

impl Form for Area {
    fn read(_alloc: Global, value: &Value) -> Result<u32, FeedFault> {
        read_number(value, 1, MOST_ZONES as u32)
    }
}

/// A number of nodes of a search tree.
pub struct Nodes;

impl Printed for Nodes {
    type Item = u32;

    ghost written = { natural };

    ghost InItsRange = { IsBudget };

    fn put(text: &mut Vec<u8>, number: &u32) -> Result<(), Memory> {
        put_natural(text, u64::from(*number))
    }
}

impl Form for Nodes {
    fn read(_alloc: Global, value: &Value) -> Result<u32, FeedFault> {
        read_number(value, 1, MOST_NODES)
    }
}

/// The number of a quarter hour, or how many a day has.
pub struct Quarter;

impl Printed for Quarter {
    type Item = u32;

    ghost written = { natural };

    ghost InItsRange = { λ n. Between 1 QUARTERS n };

    fn put(text: &mut Vec<u8>, number: &u32) -> Result<(), Memory> {
        put_natural(text, u64::from(*number))
    }
}

impl Form for Quarter {
    fn read(_alloc: Global, value: &Value) -> Result<u32, FeedFault> {
        read_number(value, 1, MOST_QUARTERS)
    }
}

/// The number of a run.
pub struct Run;

impl Printed for Run {
    type Item = u32;

    ghost written = { natural };

    ghost InItsRange = { λ n. Between 1 RUNS n };

    fn put(text: &mut Vec<u8>, number: &u32) -> Result<(), Memory> {
        put_natural(text, u64::from(*number))
    }
}

impl Form for Run {
    fn read(_alloc: Global, value: &Value) -> Result<u32, FeedFault> {
        read_number(value, 1, MOST_RUNS as u32)
    }
}
