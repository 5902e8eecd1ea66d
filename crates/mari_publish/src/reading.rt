//! Reading a text.

ghost use Rattle.std.specs.Prelude.{◌≡◌, ℕ, OnOk, Ok, Err};
ghost use Rattle.mari_publish.specs.Order.{grown, nothing_kept, nothing_read};
ghost use Rattle.mari_publish.specs.Faults.{IsText, BadLineAt, BadOrderAt, TruncatedAt, IsOutcome, AnswersWith};
ghost use Rattle.mari_publish.specs.Gathering.{seen, Finishes};
ghost use Rattle.mari_publish.specs.declared.publication.Publication.{Publication as PublicationValue};

use crate::fault::TextFault;
use crate::held::{Held, Kept};
use crate::publication::{Block, Part, Publication};
use crate::taking::take_line;
use mari_lines::{AmountLine, MoneyLine, split_once};
use mari_units::{Items, Memory, Name};
use std::alloc::Global;
use std::mem;

/// The parts so far.
#[derive(Drop)]
pub struct Gathered {
    /// The date, once the head has come.
    pub date: Option<Name>,
    /// How many quarter hours it has.
    pub quarters: u32,
    /// The budget of nodes for each run.
    pub budget: u32,
    /// The blocks so far.
    pub blocks: Vec<Block>,
    /// The totals of operators, once they have come.
    pub operators: Items<MoneyLine>,
    /// The totals of providers, once they have come.
    pub providers: Items<AmountLine>,
}

/// No part.
fn nothing(alloc: Global) -> Gathered
    ensures { seen result ≡ nothing_read }
{
    Gathered {
        date: None,
        quarters: 0,
        budget: 0,
        blocks: Vec::new(alloc),
        operators: Items::of(Vec::new(alloc)),
        providers: Items::of(Vec::new(alloc)),
    }
}

/// The parts with one more, if there is one.
fn gather(alloc: Global, gathered: &mut Gathered, part: Option<Part>) -> Result<(), Memory>
    ensures { OnOk result (seen gathered.new ≡ grown (seen gathered.old) part) }
{
    let Some(part) = part else {
        return Ok(());
    };
    match part {
        Part::Head {
            date,
            quarters,
            budget,
        } => {
            *gathered = Gathered {
                date: Some(date),
                quarters,
                budget,
                blocks: Vec::new(alloc),
                operators: Items::of(Vec::new(alloc)),
                providers: Items::of(Vec::new(alloc)),
            };
            Ok(())
        }
        Part::Block(block) => {
            gathered.blocks.push(block)?;
            Ok(())
        }
        Part::Totals {
            operators,
            providers,
        } => {
            gathered.operators = operators;
            gathered.providers = providers;
            Ok(())
        }
    }
}

/// The publication, if the text ends where one does: its parts are taken from those gathered.
fn finish(
    alloc: Global,
    gathered: &mut Gathered,
    held: &Held,
    rest: &[u8],
    number: u32,
) -> Result<Publication, TextFault>
    ensures { Finishes gathered.old held.now rest.now number result }
{
    if !rest.is_empty() {
        return Err(TextFault::Truncated(number));
    }
    if !matches!(held, Held::Done) {
        return Err(TextFault::Truncated(number));
    }
    let Some(date) = gathered.date.take() else {
        return Err(TextFault::Truncated(number));
    };
    Ok(Publication {
        date,
        quarters: gathered.quarters,
        budget: gathered.budget,
        blocks: Items::of(mem::replace(&mut gathered.blocks, Vec::new(alloc))),
        operators: mem::replace(&mut gathered.operators, Items::of(Vec::new(alloc))),
        providers: mem::replace(&mut gathered.providers, Items::of(Vec::new(alloc))),
    })
}

/// The one publication whose text this is, or the first fault.
fn read_lines(
    alloc: Global,
    kept: &mut Kept,
    gathered: &mut Gathered,
    bytes: &[u8],
) -> Result<Publication, TextFault>
    requires kept { kept.old ≡ nothing_kept }
    requires gathered { seen gathered.old ≡ nothing_read }
    ensures { IsOutcome bytes.now result }
{
    let mut rest = bytes;
    let mut number = 1u32;
    while let Some((here, after)) = split_once(b'\n', rest) {
        let part = match take_line(alloc, kept, here) {
            Ok(part) => part,
            Err(fault) => return Err(fault.at(number)),
        };
        if gather(alloc, gathered, part).is_err() {
            return Err(TextFault::Memory);
        }
        rest = after;
        number += 1;
    }
    finish(alloc, gathered, &kept.held, rest, number)
}

/// The one publication whose text this is, or the first fault: the number of its line from 1, the first line with a
/// fault, and at one line `BadLine` before `BadOrder`.
pub fn read_text(alloc: Global, bytes: &[u8]) -> Result<Publication, TextFault>
    ensures outcome { IsOutcome bytes.now result }
    ensures text { (p : PublicationValue) → IsText bytes.now p → AnswersWith (Ok p) result }
    ensures one { (p q : PublicationValue) → IsText bytes.now p → IsText bytes.now q → p ≡ q }
    ensures bad_line { (n : ℕ) → BadLineAt bytes.now n → AnswersWith (Err (TextFault.BadLine n)) result }
    ensures bad_order { (n : ℕ) → BadOrderAt bytes.now n → AnswersWith (Err (TextFault.BadOrder n)) result }
    ensures truncated { (n : ℕ) → TruncatedAt bytes.now n → AnswersWith (Err (TextFault.Truncated n)) result }
{
    let mut kept = Kept::start();
    let mut gathered = nothing(alloc);
    let outcome = read_lines(alloc, &mut kept, &mut gathered, bytes);
    drop(kept);
    drop(gathered);
    outcome
}
