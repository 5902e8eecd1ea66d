//! The text of a part, both ways.

ghost use Rattle.std.specs.Prelude.{◌≡◌, ◌++◌, Ok, Err, IfOk, OnOk};
ghost use Rattle.serde_json.specs.View.{view};
ghost use Rattle.serde_json.specs.Written.{compact_text};
ghost use Rattle.mari_lines.specs.Ranges.{InRange};
ghost use Rattle.mari_lines.specs.declared.line.Line.TheVariants as line;
ghost use Rattle.mari_publish.specs.declared.publication.Part.{Part as PartValue};
ghost use Rattle.mari_publish.specs.Ranges.{PartFits};
ghost use Rattle.mari_feed.specs.Reading.{Reads};
ghost use Rattle.mari_feed.specs.Texts.{AnswersWith, IsNoJson, IsNoPart, IsOutcome, IsLineOf, IsPart, json_of};
ghost use Rattle.mari_feed.specs.Values.{head_value, part_value};

use crate::block::{put_totals, read_totals};
use crate::fault::FeedFault;
use crate::form::{Form, Printed};
use crate::members::{Members, has_key};
use crate::numbers::{Nodes, Quarter};
use crate::text::{put_end, put_first, put_next};
use crate::words::Date;
use mari_publish::{Block, Part};
use mari_units::{Memory, Name};
use serde_json::Value;
use std::alloc::Global;

/// Appends a head.
pub fn put_head(text: &mut Vec<u8>, date: &Name, quarters: u32, budget: u32) -> Result<(), Memory>
    requires { InRange (line.Head date.now quarters budget) }
    ensures { OnOk result (text.new.items ≡ text.old.items ++ compact_text (head_value date.now quarters budget)) }
{
    put_first::<Nodes>(text, "budget", &budget)?;
    put_next::<Date>(text, "date", date)?;
    put_next::<Quarter>(text, "quarters", &quarters)?;
    put_end(text)
}

/// The date, the quarters and the budget of a head.
fn read_head(alloc: Global, value: &Value) -> Result<(Name, u32, u32), FeedFault>
    ensures { Reads (λ x. InRange (line.Head x.0 x.1 x.2)) (λ x. head_value x.0 x.1 x.2) (view value.now) result }
{
    let mut members = Members::of(value)?;
    let budget = members.item::<Nodes>(alloc, "budget")?;
    let date = members.item::<Date>(alloc, "date")?;
    let quarters = members.item::<Quarter>(alloc, "quarters")?;
    members.end()?;
    Ok((date, quarters, budget))
}

/// Appends a part.
fn put_part(text: &mut Vec<u8>, part: &Part) -> Result<(), Memory>
    requires { PartFits part.now }
    ensures { OnOk result (text.new.items ≡ text.old.items ++ json_of part.now) }
{
    match part {
        Part::Head {
            date,
            quarters,
            budget,
        } => put_head(text, date, *quarters, *budget),
        Part::Block(block) => Block::put(text, block),
        Part::Totals {
            operators,
            providers,
        } => put_totals(text, operators.as_slice(), providers.as_slice()),
    }
}

/// The part that has this value.
fn part_of(alloc: Global, value: &Value) -> Result<Part, FeedFault>
    ensures { Reads PartFits part_value (view value.now) result }
{
    if has_key(value, "budget") {
        let (date, quarters, budget) = read_head(alloc, value)?;
        return Ok(Part::Head {
            date,
            quarters,
            budget,
        });
    }
    if has_key(value, "run") {
        return Ok(Part::Block(Block::read(alloc, value)?));
    }
    let (operators, providers) = read_totals(alloc, value)?;
    Ok(Part::Totals {
        operators,
        providers,
    })
}

/// The line of a part without its line feed: compact JSON with the keys of each object in the order of their bytes.
/// Prices are in cents per MWh, money in quarter-cents, quantities in MW, and zones are counted from 1.
pub fn part_text(alloc: Global, part: &Part) -> Result<Vec<u8>, Memory>
    requires { PartFits part.now }
    ensures text { IfOk result (λ text. text.items ≡ json_of part.now) }
    ensures back { IfOk result (λ text. IsLineOf text.items part.now) }
{
    let mut text = Vec::new(alloc);
    put_part(&mut text, part)?;
    Ok(text)
}

/// The part whose JSON the bytes are: `NotJson` where `serde_json` refuses them and memory isn't the cause, `NotAPart`
/// where they are JSON, but of no part in range.
pub fn read_part(alloc: Global, bytes: &[u8]) -> Result<Part, FeedFault>
    ensures outcome { IsOutcome bytes.now result }

    // Each answer comes wherever it is due.
    ensures part { (p : PartValue) → IsPart bytes.now p → AnswersWith (Ok p) result }
    ensures one { (p q : PartValue) → IsPart bytes.now p → IsPart bytes.now q → p ≡ q }
    ensures not_json { IsNoJson bytes.now → AnswersWith (Err FeedFault.NotJson) result }
    ensures not_a_part { IsNoPart bytes.now → AnswersWith (Err FeedFault.NotAPart) result }
{
    match Value::from_slice(alloc, bytes) {
        Ok(value) => part_of(alloc, &value),
        Err(error) => {
            if error.is_memory() {
                return Err(FeedFault::Memory);
            }
            Err(FeedFault::NotJson)
        }
    }
}
