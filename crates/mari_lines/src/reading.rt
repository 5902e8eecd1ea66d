//! Reading a line.

ghost use Rattle.std.specs.Prelude.{◌≡◌};
ghost use Rattle.mari_lines.specs.Ranges.{InRange, IsMoneyLine, IsAmountLine};
ghost use Rattle.mari_lines.specs.Spelling.{fields, money_fields, amount_fields, spelling, keyword_of as keyword_of_line};
ghost use Rattle.mari_lines.specs.Reading.{Reads};
ghost use Rattle.mari_lines.specs.declared.line.Line.TheVariants as line;

mod bids;
mod canonical;
mod keyword;
mod leading;
mod lists;
mod number;
mod separator;
mod words;

use crate::fault::FormFault;
use crate::line::{AmountLine, BidLine, BorderLine, Heading, Keyword, Line, MoneyLine, ZoneLine};
pub use bids::leading_bid;
use keyword::keyword_of;
use lists::{read_flows, read_mws, read_prices, read_zones};
use mari_market::{Cut, are_rising};
use mari_units::{MOST_DEMANDS, MOST_MW, MOST_NODES, MOST_QUARTERS, MOST_RUNS, MOST_ZONES, Name};
pub use number::is_date;
pub use separator::split_once;
use std::alloc::Global;
use words::Words;

/// A zone's fields.
fn read_zone(alloc: Global, words: &mut Words<'_>) -> Result<ZoneLine, FormFault>
    ensures { Reads (λ z. InRange (line.Zone z)) (λ z. fields (line.Zone z)) words.old result }
{
    let name = words.name(alloc)?;
    let price = words.price()?;
    let least = words.price()?;
    let greatest = words.price()?;
    let area = words.number(1, MOST_ZONES as u32)?;
    words.end()?;
    Ok(ZoneLine {
        name,
        price,
        least,
        greatest,
        area,
    })
}

/// The date, the number of quarters and the budget of the first line.
fn read_head(alloc: Global, words: &mut Words<'_>) -> Result<(Name, u32, u32), FormFault>
    ensures { Reads (λ x. InRange (line.Head x.0 x.1 x.2)) (λ x. fields (line.Head x.0 x.1 x.2)) words.old result }
{
    words.version()?;
    let date = words.date(alloc)?;
    let quarters = words.number(1, MOST_QUARTERS)?;
    let budget = words.number(1, MOST_NODES)?;
    words.end()?;
    Ok((date, quarters, budget))
}

/// A run's welfare.
fn read_welfare_line(words: &mut Words<'_>) -> Result<u64, FormFault>
    ensures { Reads (λ x. InRange (line.Welfare x)) (λ x. fields (line.Welfare x)) words.old result }
{
    let welfare = words.welfare()?;
    words.end()?;
    Ok(welfare)
}

/// A border's fields.
fn read_border(alloc: Global, words: &mut Words<'_>) -> Result<BorderLine, FormFault>
    ensures { Reads (λ x. InRange (line.Border x)) (λ x. fields (line.Border x)) words.old result }
{
    let from = words.name(alloc)?;
    let to = words.name(alloc)?;
    let flow = words.flow()?;
    let rent = words.money()?;
    words.end()?;
    Ok(BorderLine {
        from,
        to,
        flow,
        rent,
    })
}

/// A bid's fields.
fn read_bid(alloc: Global, words: &mut Words<'_>) -> Result<BidLine, FormFault>
    ensures { Reads (λ x. InRange (line.Bid x)) (λ x. fields (line.Bid x)) words.old result }
{
    let id = words.name(alloc)?;
    let mw = words.number(0, MOST_MW)?;
    words.end()?;
    Ok(BidLine { id, mw })
}

/// A demand's place and quantity.
fn read_demand(words: &mut Words<'_>) -> Result<(u32, u32), FormFault>
    ensures { Reads (λ x. InRange (line.Demand x.0 x.1)) (λ x. fields (line.Demand x.0 x.1)) words.old result }
{
    let place = words.number(1, MOST_DEMANDS as u32)?;
    let mw = words.number(0, MOST_MW)?;
    words.end()?;
    Ok((place, mw))
}

/// How many items a tree has.
fn read_tree(words: &mut Words<'_>) -> Result<u32, FormFault>
    ensures { Reads (λ x. InRange (line.Tree x)) (λ x. fields (line.Tree x)) words.old result }
{
    let count = words.number(1, MOST_NODES)?;
    words.end()?;
    Ok(count)
}

/// The number of the run that ends.
fn read_end(words: &mut Words<'_>) -> Result<u32, FormFault>
    ensures { Reads (λ x. InRange (line.End x)) (λ x. fields (line.End x)) words.old result }
{
    let run = words.number(1, MOST_RUNS as u32)?;
    words.end()?;
    Ok(run)
}

/// How many runs were published, and how many not.
fn read_done(words: &mut Words<'_>) -> Result<(u32, u32), FormFault>
    ensures { Reads (λ x. InRange (line.Done x.0 x.1)) (λ x. fields (line.Done x.0 x.1)) words.old result }
{
    let published = words.number(0, MOST_RUNS as u32)?;
    let unpublished = words.number(0, MOST_RUNS as u32)?;
    words.end()?;
    Ok((published, unpublished))
}

/// An operator's fields.
fn read_operator(alloc: Global, words: &mut Words<'_>) -> Result<MoneyLine, FormFault>
    ensures { Reads IsMoneyLine money_fields words.old result }
{
    let name = words.name(alloc)?;
    let payment = words.money()?;
    let rent = words.money()?;
    let net = words.money()?;
    words.end()?;
    Ok(MoneyLine {
        name,
        payment,
        rent,
        net,
    })
}

/// A provider's fields.
fn read_provider(alloc: Global, words: &mut Words<'_>) -> Result<AmountLine, FormFault>
    ensures { Reads IsAmountLine amount_fields words.old result }
{
    let name = words.name(alloc)?;
    let amount = words.money()?;
    words.end()?;
    Ok(AmountLine { name, amount })
}

/// A cut's side and its zones.
fn read_cut(alloc: Global, words: &mut Words<'_>) -> Result<Cut, FormFault>
    ensures { Reads (λ x. InRange (line.Cut x)) (λ x. fields (line.Cut x)) words.old result }
{
    let side = words.side()?;
    let zones = read_zones(alloc, words)?;
    if !are_rising(zones.as_slice(), MOST_ZONES as u32) {
        return Err(FormFault::Formless);
    }
    Ok(Cut { side, zones })
}

/// What stands after `run`.
fn read_run(words: &mut Words<'_>) -> Result<Line, FormFault>
    ensures { Reads (λ l. InRange l × (keyword_of_line l ≡ Keyword.Run)) fields words.old result }
{
    let run = words.number(1, MOST_RUNS as u32)?;
    let quarter = words.number(1, MOST_QUARTERS)?;
    let direct = words.direct()?;
    let published = words.published()?;
    let heading = Heading {
        run,
        quarter,
        direct,
    };
    if published {
        words.end()?;
        return Ok(Line::Run(heading));
    }
    let count = words.number(1, MOST_NODES)?;
    words.end()?;
    Ok(Line::Unpublished(heading, count))
}

/// What stands after a line's first word.
fn read_fields(alloc: Global, keyword: Keyword, words: &mut Words<'_>) -> Result<Line, FormFault>
    ensures { Reads (λ l. InRange l × (keyword_of_line l ≡ keyword)) fields words.old result }
{
    match keyword {
        Keyword::Mari => {
            let (date, quarters, budget) = read_head(alloc, words)?;
            Ok(Line::Head(date, quarters, budget))
        }
        Keyword::Run => read_run(words),
        Keyword::Welfare => Ok(Line::Welfare(read_welfare_line(words)?)),
        Keyword::Zone => Ok(Line::Zone(read_zone(alloc, words)?)),
        Keyword::Border => Ok(Line::Border(read_border(alloc, words)?)),
        Keyword::Bid => Ok(Line::Bid(read_bid(alloc, words)?)),
        Keyword::Demand => {
            let (place, mw) = read_demand(words)?;
            Ok(Line::Demand(place, mw))
        }
        Keyword::Tree => Ok(Line::Tree(read_tree(words)?)),
        Keyword::Branch => {
            words.end()?;
            Ok(Line::Branch)
        }
        Keyword::Bound => Ok(Line::Bound(read_prices(alloc, words)?)),
        Keyword::Cut => Ok(Line::Cut(read_cut(alloc, words)?)),
        Keyword::Conflict => Ok(Line::Conflict(read_zones(alloc, words)?)),
        Keyword::At => Ok(Line::At(read_prices(alloc, words)?)),
        Keyword::Flows => Ok(Line::Flows(read_flows(alloc, words)?)),
        Keyword::Mws => Ok(Line::Mws(read_mws(alloc, words)?)),
        Keyword::Operator => Ok(Line::Operator(read_operator(alloc, words)?)),
        Keyword::Provider => Ok(Line::Provider(read_provider(alloc, words)?)),
        Keyword::End => Ok(Line::End(read_end(words)?)),
        Keyword::TotalOperator => Ok(Line::TotalOperator(read_operator(alloc, words)?)),
        Keyword::TotalProvider => Ok(Line::TotalProvider(read_provider(alloc, words)?)),
        Keyword::Done => {
            let (published, unpublished) = read_done(words)?;
            Ok(Line::Done(published, unpublished))
        }
    }
}

/// The line that is spelled so.
pub fn read_line(alloc: Global, text: &[u8]) -> Result<Line, FormFault>
    ensures { Reads InRange spelling text.now result }
{
    let mut words = Words::of(text);
    let Some(first) = words.next_word() else {
        return Err(FormFault::Formless);
    };
    let Some(keyword) = keyword_of(first) else {
        return Err(FormFault::Formless);
    };
    read_fields(alloc, keyword, &mut words)
}
