//! Reading a line.
//!
//! The first form's reader reads the shared lines, and the pieces of the others: each piece is set into a line of the first
//! form, in which it stands just where it stands here.

ghost use Rattle.std.specs.Prelude.{◌≡◌, ◌∷◌, ◌++◌, [], codes, true, MatchResult};
ghost use Rattle.mari_units.specs.Names.{IsName};
ghost use Rattle.mari_lines.specs.Ranges.{IsHeading};
ghost use Rattle.mari_lines.specs.Reading.{Lacks, Reads};
ghost use Rattle.mari_lines.specs.Spelling.{heading_fields, published_text, spaced};
ghost use Rattle.mari_lines.specs.declared.fault.FormFault.TheVariants as form_fault;
ghost use Rattle.mari_reach_lines.specs.Ranges.{IsClaim, ReachInRange, is_shared as is_shared_line};
ghost use Rattle.mari_reach_lines.specs.Spelling.{claim_fields, reach_spelling, words_of};
ghost use Rattle.mari_lines.specs.declared.line.Line.{Line as FirstLine};
ghost use Rattle.mari_reach_lines.specs.declared.line.ReachLine.{ReachLine as AnyLine};
ghost use Rattle.mari_reach_lines.specs.declared.line.ReachLine.TheVariants as reach;

mod pieces;

use crate::line::{Claim, ReachLine};
use mari_lines::{FormFault, Heading, Line, read_line, split_once};
use mari_units::{Name, NameFault, read_name};
use pieces::{
    after_version, append, append_word, is_same, next_word, read_after, read_gap, read_price,
};
use std::alloc::Global;

/// The first line, after its first word.
fn read_head(alloc: Global, rest: &[u8]) -> Result<ReachLine, FormFault>
    ensures { Reads ReachInRange reach_spelling (codes "mari " ++ rest.now) result }
{
    let Some(fields) = after_version(rest) else {
        return Err(FormFault::Formless);
    };
    let Line::Head(date, quarters, budget) = read_after(alloc, b"mari 1 ", fields)? else {
        return Err(FormFault::Formless);
    };
    Ok(ReachLine::Head(date, quarters, budget))
}

/// The line of a published run of the first form that has these fields.
fn run_text(alloc: Global, run: &[u8], quarter: &[u8], kind: &[u8]) -> Result<Vec<u8>, FormFault>
    ensures { MatchResult result (λ text. text.items ≡ codes "run" ++ spaced (run.now ∷ quarter.now ∷ kind.now ∷ published_text true ∷ []))
        (λ fault. fault ≡ form_fault.Memory) }
{
    let mut text = Vec::new(alloc);
    append(&mut text, b"run")?;
    append_word(&mut text, run)?;
    append_word(&mut text, quarter)?;
    append_word(&mut text, kind)?;
    append(&mut text, b" published")?;
    Ok(text)
}

/// A run's number, its quarter and its kind.
fn read_heading(
    alloc: Global,
    run: &[u8],
    quarter: &[u8],
    kind: &[u8],
) -> Result<Heading, FormFault>
    requires run { Lacks 32 run.now }
    requires quarter { Lacks 32 quarter.now }
    requires kind { Lacks 32 kind.now }
    ensures { Reads IsHeading heading_fields (run.now ∷ quarter.now ∷ kind.now ∷ []) result }
{
    let text = run_text(alloc, run, quarter, kind)?;
    let Line::Run(heading) = read_line(alloc, text.as_slice())? else {
        return Err(FormFault::Formless);
    };
    Ok(heading)
}

/// What a run's line says of the activation.
fn read_claim(alloc: Global, text: &[u8]) -> Result<Claim, FormFault>
    ensures { Reads IsClaim claim_fields (words_of text.now) result }
{
    if is_same(text, b"first") {
        return Ok(Claim::First);
    }
    let (word, gap) = next_word(text)?;
    if !is_same(word, b"within") {
        return Err(FormFault::Formless);
    }
    Ok(Claim::Within(read_gap(alloc, gap)?))
}

/// A run's line, after its first word.
fn read_run(alloc: Global, rest: &[u8]) -> Result<ReachLine, FormFault>
    ensures { Reads ReachInRange reach_spelling (codes "run " ++ rest.now) result }
{
    let (run, after_run) = next_word(rest)?;
    let (quarter, after_quarter) = next_word(after_run)?;
    let (kind, said) = next_word(after_quarter)?;
    let heading = read_heading(alloc, run, quarter, kind)?;
    let claim = read_claim(alloc, said)?;
    Ok(ReachLine::Run(heading, claim))
}

/// A name.
fn read_own_name(alloc: Global, text: &[u8]) -> Result<Name, FormFault>
    ensures { Reads IsName (λ name. name) text.now result }
{
    match read_name(alloc, text) {
        Ok(name) => Ok(name),
        Err(NameFault::NotAName) => Err(FormFault::Formless),
        Err(NameFault::Memory) => Err(FormFault::Memory),
    }
}

/// The line of a branch at a gate, after its first word.
fn read_branch(alloc: Global, rest: &[u8]) -> Result<ReachLine, FormFault>
    ensures { Reads ReachInRange reach_spelling (codes "branch " ++ rest.now) result }
{
    Ok(ReachLine::Branch(read_own_name(alloc, rest)?))
}

/// The line of a branch at a price, after its first word.
fn read_price_line(alloc: Global, rest: &[u8]) -> Result<ReachLine, FormFault>
    ensures { Reads ReachInRange reach_spelling (codes "price " ++ rest.now) result }
{
    let (zone, price) = next_word(rest)?;
    let name = read_own_name(alloc, zone)?;
    let price = read_price(alloc, price)?;
    Ok(ReachLine::Price(name, price))
}

/// Whether the second form has this line of the first too.
fn is_shared(line: &Line) -> bool
    ensures { result ≡ is_shared_line line.now }
{
    !matches!(
        line,
        Line::Head(..)
            | Line::Run(..)
            | Line::Unpublished(..)
            | Line::Branch
            | Line::Conflict(..)
            | Line::At(..)
            | Line::Flows(..)
            | Line::Mws(..)
    )
}

/// A line that the first form has too, where no other line of the second form is spelled so.
fn read_shared(alloc: Global, here: &[u8]) -> Result<ReachLine, FormFault>
    requires { (y : AnyLine) → ReachInRange y → reach_spelling y ≡ here.now → (l : FirstLine) × (y ≡ reach.Shared l) }
    ensures { Reads ReachInRange reach_spelling here.now result }
{
    let line = read_line(alloc, here)?;
    if !is_shared(&line) {
        return Err(FormFault::Formless);
    }
    Ok(ReachLine::Shared(line))
}

/// A line of one word.
fn read_lone(alloc: Global, here: &[u8]) -> Result<ReachLine, FormFault>
    requires { words_of here.now ≡ here.now ∷ [] }
    ensures { Reads ReachInRange reach_spelling here.now result }
{
    if is_same(here, b"none") {
        return Ok(ReachLine::Void);
    }
    read_shared(alloc, here)
}

/// The line of the second form that is spelled so.
pub fn read_reach_line(alloc: Global, here: &[u8]) -> Result<ReachLine, FormFault>
    ensures { Reads ReachInRange reach_spelling here.now result }
{
    let Some((word, rest)) = split_once(b' ', here) else {
        return read_lone(alloc, here);
    };
    if is_same(word, b"mari") {
        return read_head(alloc, rest);
    }
    if is_same(word, b"run") {
        return read_run(alloc, rest);
    }
    if is_same(word, b"branch") {
        return read_branch(alloc, rest);
    }
    if is_same(word, b"price") {
        return read_price_line(alloc, rest);
    }
    read_shared(alloc, here)
}
