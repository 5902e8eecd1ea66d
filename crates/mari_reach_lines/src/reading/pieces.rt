//! The pieces of a line.

ghost use Rattle.std.specs.Prelude.{◌≡◌, ◌≢◌, ◌∷◌, ◌++◌, [], ◌↔◌, List, ℕ, IsTrue, MatchOption, MatchResult, OnOk};
ghost use Rattle.mari_units.specs.declared.numbers.Cents.{Cents as Price};
ghost use Rattle.mari_market.specs.Price.{IsCapped};
ghost use Rattle.mari_lines.specs.Ranges.{InRange};
ghost use Rattle.mari_lines.specs.Reading.{Lacks, Reads};
ghost use Rattle.mari_lines.specs.Spelling.{money_text, price_text, spelling};
ghost use Rattle.mari_lines.specs.declared.fault.FormFault.TheVariants as form_fault;
ghost use Rattle.mari_reach_lines.specs.Ranges.{IsGap};
ghost use Rattle.mari_reach_lines.specs.Spelling.{words_of};

use mari_lines::{FormFault, Line, read_line, split_once};
use mari_units::{Cents, Memory, Quarters, put};
use std::alloc::Global;

/// Whether both are the same bytes.
pub fn is_same(text: &[u8], other: &[u8]) -> bool
    ensures { IsTrue result ↔ (text.now ≡ other.now) }
{
    text == other
}

/// What stands after the number of the second form and a space.
pub fn after_version(text: &[u8]) -> Option<&[u8]>
    ensures { MatchOption result ((fields : List ℕ) → text.now ≢ 50 ∷ 32 ∷ fields) (λ fields. text.now ≡ 50 ∷ 32 ∷ fields.now) }
{
    match text {
        [b'2', b' ', fields @ ..] => Some(fields),
        _ => None,
    }
}

/// The first word of a text of several, and what stands after the space behind it.
pub fn next_word(text: &[u8]) -> Result<(&[u8], &[u8]), FormFault>
    ensures { MatchResult result (λ x. Lacks 32 x.0.now × (words_of text.now ≡ x.0.now ∷ words_of x.1.now))
        (λ fault. (fault ≡ form_fault.Formless) × (words_of text.now ≡ text.now ∷ [])) }
{
    match split_once(b' ', text) {
        Some(parts) => Ok(parts),
        None => Err(FormFault::Formless),
    }
}

/// Appends bytes.
pub fn append(text: &mut Vec<u8>, piece: &[u8]) -> Result<(), FormFault>
    ensures { MatchResult result (λ _. text.new.items ≡ text.old.items ++ piece.now) (λ fault. fault ≡ form_fault.Memory) }
{
    match put(text, piece) {
        Ok(()) => Ok(()),
        Err(Memory) => Err(FormFault::Memory),
    }
}

/// Appends a space and a word.
pub fn append_word(text: &mut Vec<u8>, word: &[u8]) -> Result<(), FormFault>
    ensures { MatchResult result (λ _. text.new.items ≡ text.old.items ++ 32 ∷ word.now) (λ fault. fault ≡ form_fault.Memory) }
{
    append(text, b" ")?;
    append(text, word)
}

/// The line of the first form that is spelled by this start and these fields.
pub fn read_after(alloc: Global, start: &[u8], fields: &[u8]) -> Result<Line, FormFault>
    ensures { Reads InRange spelling (start.now ++ fields.now) result }
{
    let mut text = Vec::new(alloc);
    append(&mut text, start)?;
    append(&mut text, fields)?;
    read_line(alloc, text.as_slice())
}

/// The gap that is printed so.
pub fn read_gap(alloc: Global, text: &[u8]) -> Result<Quarters, FormFault>
    ensures { Reads IsGap money_text text.now result }
{
    let Line::Provider(provider) = read_after(alloc, b"provider x ", text)? else {
        return Err(FormFault::Formless);
    };
    if provider.amount.0 < 0 {
        return Err(FormFault::Formless);
    }
    Ok(provider.amount)
}

/// The price of a list of one.
fn only_price(prices: &[Cents]) -> Option<Cents>
    ensures { MatchOption result ((price : Price) → prices.now ≢ price ∷ []) (λ price. prices.now ≡ price ∷ []) }
{
    match prices {
        [price] => Some(*price),
        _ => None,
    }
}

/// The price that is printed so.
pub fn read_price(alloc: Global, text: &[u8]) -> Result<Cents, FormFault>
    ensures { Reads IsCapped price_text text.now result }
{
    let Line::Bound(prices) = read_after(alloc, b"bound ", text)? else {
        return Err(FormFault::Formless);
    };
    let Some(price) = only_price(prices.as_slice()) else {
        return Err(FormFault::Formless);
    };
    Ok(price)
}
