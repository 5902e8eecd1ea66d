//! Names, dates and the words of the feed.

ghost use Rattle.std.specs.Prelude.{◌≡◌, ◌↔◌, IsTrue, ⊤};
ghost use Rattle.serde_json.specs.Data.{string};
ghost use Rattle.mari_units.specs.Names.{IsName};
ghost use Rattle.mari_lines.specs.Ranges.{IsDate};
ghost use Rattle.mari_feed.specs.Values.{kind_value, side_value};

use crate::fault::FeedFault;
use crate::form::{Form, Printed};
use crate::text::put_string;
use mari_lines::is_date;
use mari_market::CutSide;
use mari_units::{Memory, Name, NameFault, read_name};
use serde_json::Value;
use std::alloc::Global;

/// Whether both are the same text.
pub fn is_same(text: &str, other: &str) -> bool
    ensures { IsTrue result ↔ (text.now ≡ other.now) }
{
    text == other
}

impl Printed for Name {
    type Item = Name;

    ghost written = { string };

    ghost InItsRange = { IsName };

    fn put(text: &mut Vec<u8>, name: &Name) -> Result<(), Memory> {
        put_string(text, name.bytes())
    }
}

impl Form for Name {
    fn read(alloc: Global, value: &Value) -> Result<Name, FeedFault> {
        let Some(text) = value.as_str() else {
            return Err(FeedFault::NotAPart);
        };
        match read_name(alloc, text.as_bytes()) {
            Ok(name) => Ok(name),
            Err(NameFault::NotAName) => Err(FeedFault::NotAPart),
            Err(NameFault::Memory) => Err(FeedFault::Memory),
        }
    }
}

/// A date.
pub struct Date;

impl Printed for Date {
    type Item = Name;

    ghost written = { string };

    ghost InItsRange = { IsDate };

    fn put(text: &mut Vec<u8>, date: &Name) -> Result<(), Memory> {
        put_string(text, date.bytes())
    }
}

impl Form for Date {
    fn read(alloc: Global, value: &Value) -> Result<Name, FeedFault> {
        let name = Name::read(alloc, value)?;
        if !is_date(name.bytes()) {
            return Err(FeedFault::NotAPart);
        }
        Ok(name)
    }
}

/// The kind of a run: whether it is a direct run.
pub struct Kind;

impl Printed for Kind {
    type Item = bool;

    ghost written = { kind_value };

    ghost InItsRange = { λ _. ⊤ };

    fn put(text: &mut Vec<u8>, direct: &bool) -> Result<(), Memory> {
        if *direct {
            put_string(text, b"direct")
        } else {
            put_string(text, b"scheduled")
        }
    }
}

impl Form for Kind {
    fn read(_alloc: Global, value: &Value) -> Result<bool, FeedFault> {
        let Some(text) = value.as_str() else {
            return Err(FeedFault::NotAPart);
        };
        if is_same(text, "direct") {
            return Ok(true);
        }
        if is_same(text, "scheduled") {
            return Ok(false);
        }
        Err(FeedFault::NotAPart)
    }
}

impl Printed for CutSide {
    type Item = CutSide;

    ghost written = { side_value };

    ghost InItsRange = { λ _. ⊤ };

    fn put(text: &mut Vec<u8>, side: &CutSide) -> Result<(), Memory> {
        match side {
            CutSide::Out => put_string(text, b"out"),
            CutSide::In => put_string(text, b"in"),
        }
    }
}

impl Form for CutSide {
    fn read(_alloc: Global, value: &Value) -> Result<CutSide, FeedFault> {
        let Some(text) = value.as_str() else {
            return Err(FeedFault::NotAPart);
        };
        if is_same(text, "out") {
            return Ok(CutSide::Out);
        }
        if is_same(text, "in") {
            return Ok(CutSide::In);
        }
        Err(FeedFault::NotAPart)
    }
}
