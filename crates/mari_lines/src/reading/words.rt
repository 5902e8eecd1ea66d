//! The words of a line, read one after the other.

ghost use Rattle.std.specs.Prelude.{◌≡◌, ◌≢◌, ◌≤◌, ◌==◌, ◌∷◌, ◌++◌, [], List, ℕ, ◌<◌, ◌^◌, ◌↔◌, IsTrue, IfSome, MatchOption, MatchResult, codes, ⊤};
ghost use Rattle.std.specs.List.{slice_split};
ghost use Rattle.std.specs.Fmt.{decimal, signed_decimal};
ghost use Rattle.mari_market.specs.Price.{IsCapped};
ghost use Rattle.mari_units.specs.Names.{IsName};
ghost use Rattle.mari_units.specs.Numbers.{Within};
ghost use Rattle.mari_lines.specs.Ranges.{Between, IsDate, IsMoney};
ghost use Rattle.mari_lines.specs.Spelling.{price_text, money_text, kind_text, published_text, side_text};
ghost use Rattle.mari_lines.specs.Reading.{Lacks, Reads, ReadsFirst, words_in};
ghost use Rattle.mari_lines.specs.declared.fault.FormFault.TheVariants as form_fault;

use super::leading::{leading_hundredths, leading_number};
use super::number::{
    read_date, read_flow, read_money, read_name_text, read_number, read_price, read_welfare,
};
use super::separator::split_near;
use crate::fault::FormFault;
use mari_market::CutSide;
use mari_units::{CAP, Cents, MOST_FLOW, Name, Quarters};
use std::alloc::Global;
use std::marker::Model;

/// Whether both are the same bytes.
fn is_same(text: &[u8], other: &[u8]) -> bool
    ensures { IsTrue result ↔ (text.now ≡ other.now) }
{
    text == other
}

/// What is left of a line whose word has just ended: nothing where it hasn't.
fn after_word(text: &[u8]) -> Option<Option<&[u8]>>
    ensures { IfSome result (λ rest. (word : List ℕ) → Lacks 32 word → slice_split (λ b. b == 32) (word ++ text.now) ≡ word ∷ words_in rest) }
{
    match text {
        [] => Some(None),
        [b' ', rest @ ..] => Some(Some(rest)),
        _ => None,
    }
}

/// The price that is the first word of a text and isn't below 0, and what is left of the line after it.
fn plain_price(text: &[u8]) -> Option<(Cents, Option<&[u8]>)>
    ensures { IfSome result (λ x. IsCapped x.0 × (slice_split (λ b. b == 32) text.now ≡ price_text x.0 ∷ words_in x.1)) }
{
    let (cents, after) = leading_hundredths(text, CAP as u32)?;
    let rest = after_word(after)?;
    Some((Cents(i64::from(cents)), rest))
}

/// The number up to `greatest` that is the first word of a text, and what is left of the line after it.
fn plain_number(text: &[u8], greatest: u32) -> Option<(u32, Option<&[u8]>)>
    ensures { IfSome result (λ x. (x.0 ≤ greatest) × (slice_split (λ b. b == 32) text.now ≡ decimal x.0 ∷ words_in x.1)) }
{
    let (number, after) = leading_number(text, greatest)?;
    let rest = after_word(after)?;
    Some((number, rest))
}

/// The words that are left of a line, which contracts see as the list of them.
#[derive(Drop)]
pub struct Words<'a> {
    rest: Option<&'a [u8]>,
}

impl<'a> Model for Words<'a> {
    ghost use Rattle.std.specs.Prelude.{List, ℕ};
    ghost use Rattle.mari_lines.specs.Reading.{words_in};

    ghost Value = { List (List ℕ) };

    ghost view = { λ w. words_in w.rest };
}

impl<'a> Words<'a> {
    /// The words of a text, with a space between two.
    pub fn of(text: &'a [u8]) -> Words<'a>
        ensures { result ≡ slice_split (λ b. b == 32) text.now }
    {
        Words { rest: Some(text) }
    }

    /// About how many words are left: one more than there would be of four bytes each. No clause says how many.
    pub fn about(&self) -> usize {
        match self.rest {
            None => 0,
            Some(text) => (text.len() / 5).saturating_add(1),
        }
    }

    /// Takes the words that are left.
    pub fn take_all(&mut self) -> Words<'a>
        ensures taken { result ≡ self.old }
        ensures left { self.new ≡ [] }
    {
        Words {
            rest: self.rest.take(),
        }
    }

    /// Takes the next word.
    pub fn next_word(&mut self) -> Option<&'a [u8]>
        ensures { MatchOption result ((self.old ≡ []) × (self.new ≡ [])) (λ word. self.old ≡ word.now ∷ self.new) }
    {
        let text = self.rest?;
        match split_near(b' ', text) {
            Some((word, after)) => {
                self.rest = Some(after);
                Some(word)
            }
            None => {
                self.rest = None;
                Some(text)
            }
        }
    }

    /// Takes the next word, which is to be a price.
    pub fn next_price(&mut self) -> Option<Result<Cents, FormFault>>
        ensures { MatchOption result ((self.old ≡ []) × (self.new ≡ []))
            (λ price. (word : List ℕ) × (self.old ≡ word ∷ self.new) × Reads IsCapped price_text word price) }
    {
        let text = self.rest?;
        if let Some((price, rest)) = plain_price(text) {
            self.rest = rest;
            return Some(Ok(price));
        }
        let word = self.next_word()?;
        Some(read_price(word))
    }

    /// Takes the next word, which is to be a number from 0 to `greatest`.
    pub fn next_number(&mut self, greatest: u32) -> Option<Result<u32, FormFault>>
        ensures { MatchOption result ((self.old ≡ []) × (self.new ≡ []))
            (λ number. (word : List ℕ) × (self.old ≡ word ∷ self.new) × Reads (λ n. n ≤ greatest) decimal word number) }
    {
        let text = self.rest?;
        if let Some((number, rest)) = plain_number(text, greatest) {
            self.rest = rest;
            return Some(Ok(number));
        }
        let word = self.next_word()?;
        Some(read_number(word, 0, greatest))
    }

    /// Asks for the end of the line.
    pub fn end(&self) -> Result<(), FormFault>
        ensures { MatchResult result (λ _. self.now ≡ []) (λ fault. (fault ≡ form_fault.Formless) × (self.now ≢ [])) }
    {
        match self.rest {
            None => Ok(()),
            Some(_) => Err(FormFault::Formless),
        }
    }

    /// Takes a word that must be there.
    fn word(&mut self) -> Result<&'a [u8], FormFault>
        ensures { MatchResult result (λ word. self.old ≡ word.now ∷ self.new) (λ fault. (fault ≡ form_fault.Formless) × (self.old ≡ [])) }
    {
        match self.next_word() {
            Some(word) => Ok(word),
            None => Err(FormFault::Formless),
        }
    }

    /// Takes a name.
    pub fn name(&mut self, alloc: Global) -> Result<Name, FormFault>
        ensures { ReadsFirst IsName (λ name. name) self.old self.new result }
    {
        let word = self.word()?;
        read_name_text(alloc, word)
    }

    /// Takes a number from `least` to `greatest`.
    pub fn number(&mut self, least: u32, greatest: u32) -> Result<u32, FormFault>
        ensures { ReadsFirst (Between least greatest) decimal self.old self.new result }
    {
        let word = self.word()?;
        read_number(word, least, greatest)
    }

    /// Takes a welfare.
    pub fn welfare(&mut self) -> Result<u64, FormFault>
        ensures { ReadsFirst (λ n. n < 2 ^ 63) decimal self.old self.new result }
    {
        let word = self.word()?;
        read_welfare(word)
    }

    /// Takes a flow.
    pub fn flow(&mut self) -> Result<i64, FormFault>
        ensures { ReadsFirst (λ z. Within MOST_FLOW z) signed_decimal self.old self.new result }
    {
        let word = self.word()?;
        read_flow(word)
    }

    /// Takes a price.
    pub fn price(&mut self) -> Result<Cents, FormFault>
        ensures { ReadsFirst IsCapped price_text self.old self.new result }
    {
        let word = self.word()?;
        read_price(word)
    }

    /// Takes an amount of money.
    pub fn money(&mut self) -> Result<Quarters, FormFault>
        ensures { ReadsFirst IsMoney money_text self.old self.new result }
    {
        let word = self.word()?;
        read_money(word)
    }

    /// Takes a date.
    pub fn date(&mut self, alloc: Global) -> Result<Name, FormFault>
        ensures { ReadsFirst IsDate (λ date. date) self.old self.new result }
    {
        let word = self.word()?;
        read_date(alloc, word)
    }

    /// Takes the number of the format, which is 1.
    pub fn version(&mut self) -> Result<(), FormFault>
        ensures { ReadsFirst (λ _. ⊤) (λ _. codes "1") self.old self.new result }
    {
        let word = self.word()?;
        if is_same(word, b"1") {
            return Ok(());
        }
        Err(FormFault::Formless)
    }

    /// Takes a run's kind: whether it is a direct run.
    pub fn direct(&mut self) -> Result<bool, FormFault>
        ensures { ReadsFirst (λ _. ⊤) kind_text self.old self.new result }
    {
        let word = self.word()?;
        if is_same(word, b"direct") {
            return Ok(true);
        }
        if is_same(word, b"scheduled") {
            return Ok(false);
        }
        Err(FormFault::Formless)
    }

    /// Takes the word that says whether a run is published.
    pub fn published(&mut self) -> Result<bool, FormFault>
        ensures { ReadsFirst (λ _. ⊤) published_text self.old self.new result }
    {
        let word = self.word()?;
        if is_same(word, b"published") {
            return Ok(true);
        }
        if is_same(word, b"unpublished") {
            return Ok(false);
        }
        Err(FormFault::Formless)
    }

    /// Takes the side of a cut.
    pub fn side(&mut self) -> Result<CutSide, FormFault>
        ensures { ReadsFirst (λ _. ⊤) side_text self.old self.new result }
    {
        let word = self.word()?;
        if is_same(word, b"out") {
            return Ok(CutSide::Out);
        }
        if is_same(word, b"in") {
            return Ok(CutSide::In);
        }
        Err(FormFault::Formless)
    }
}
