//! The money of a block.

ghost use Rattle.std.specs.Prelude.{◌≡◌, ◌<◌, ◌^◌, IfOk, IfSome, IsTrue, ◌↔◌, length, map, option_map};
ghost use Rattle.std.specs.List.{All, AllZip, range_with_len};
ghost use Rattle.mari_rows.specs.Names.{name_at};
ghost use Rattle.mari_market.specs.Optimal.{IsConsistent, IsFeasible};
ghost use Rattle.mari_market.specs.Price.{ArePrices};
ghost use Rattle.mari_remain.specs.Accepted.{IsAccepted};
ghost use Rattle.mari_settle.specs.Conditions.{HasSmallNumbers, LineIsWithin};
ghost use Rattle.mari_check.specs.Examined.{IsReportedLedger};
ghost use Rattle.mari_check.specs.Lines.{StatesRent};
ghost use Rattle.mari_progress.specs.Money.{StatesLedger, amount_line, money_line, money_lines_of};
ghost use Rattle.mari_progress.specs.Runs.{IsMarketOf};
ghost use Rattle.mari_progress.specs.Reported.{activation_of as activation_reported, prices_of as prices_reported};

use crate::names::is_named;
use mari_market::{Activation, Prices};
use mari_progress::{ledger_of, providers_of};
use mari_publish::{AmountLine, BorderLine, FullBlock, MoneyLine};
use mari_remain::{Books, RunMarket};
use mari_rows::NameIndex;
use mari_settle::{Ledger, OperatorLine};
use mari_units::{Memory, Quarters};
use std::alloc::Global;

/// Whether a border's line states this rent.
fn is_rent(line: &BorderLine, rent: Quarters) -> bool
    ensures { IsTrue result ↔ StatesRent line.now rent }
{
    line.rent == rent
}

/// Whether the lines state these rents.
fn are_rents(lines: &[BorderLine], rents: &[Quarters]) -> bool
    ensures { IsTrue result ↔ AllZip StatesRent lines.now rents.now }
{
    if lines.len() != rents.len() {
        return false;
    }
    for (border, line) in lines.iter().enumerate() {
        if !is_rent(line, rents[border]) {
            return false;
        }
    }
    true
}

/// Whether a line states the name at a place, and an operator's payment, rent and net.
fn is_money_line(line: &MoneyLine, names: &NameIndex, place: u32, own: OperatorLine) -> bool
    requires { LineIsWithin (10 ^ 30) own }
    ensures { IsTrue result ↔ (line.now ≡ money_line (name_at names.now place) own) }
{
    if !is_named(&line.name, names, place) {
        return false;
    }
    let reported = OperatorLine {
        payment: line.payment,
        rent: line.rent,
    };
    reported == own && line.net == own.net()
}

/// Whether these are the lines of all operators.
pub(crate) fn are_money_lines(lines: &[MoneyLine], names: &NameIndex, own: &[OperatorLine]) -> bool
    requires one_each { length own.now ≡ length names.now }
    requires small { All (LineIsWithin (10 ^ 30)) own.now }
    ensures { IsTrue result ↔ (lines.now ≡ money_lines_of names.now own.now) }
{
    if lines.len() != names.len() as usize {
        return false;
    }
    for (operator, line) in lines.iter().enumerate() {
        if !is_money_line(line, names, operator as u32, own[operator]) {
            return false;
        }
    }
    true
}

/// Whether a line states the name of a provider, and its amount.
fn is_amount_line(line: &AmountLine, names: &NameIndex, amounts: &[Quarters], place: u32) -> bool
    requires { place < length amounts.now }
    ensures { IsTrue result ↔ (line.now ≡ amount_line names.now amounts.now place) }
{
    if !is_named(&line.name, names, place) {
        return false;
    }
    line.amount == amounts[place as usize]
}

/// Whether these are the lines of these providers.
pub(crate) fn are_amount_lines(
    lines: &[AmountLine],
    names: &NameIndex,
    amounts: &[Quarters],
    places: &[u32],
) -> bool
    requires there { All (λ place. place < length amounts.now) places.now }
    ensures { IsTrue result ↔ (lines.now ≡ map (amount_line names.now amounts.now) places.now) }
{
    if lines.len() != places.len() {
        return false;
    }
    for (order, line) in lines.iter().enumerate() {
        if !is_amount_line(line, names, amounts, places[order]) {
            return false;
        }
    }
    true
}

/// Whether these are the lines of all providers.
pub(crate) fn are_total_lines(lines: &[AmountLine], names: &NameIndex, amounts: &[Quarters]) -> bool
    requires one_each { length amounts.now ≡ length names.now }
    ensures { IsTrue result ↔ (lines.now ≡ map (amount_line names.now amounts.now) (range_with_len 0 (length names.now))) }
{
    if lines.len() != names.len() as usize {
        return false;
    }
    for (provider, line) in lines.iter().enumerate() {
        if !is_amount_line(line, names, amounts, provider as u32) {
            return false;
        }
    }
    true
}

/// The ledger of the block's run, where the block states it.
pub fn reported_ledger(
    alloc: Global,
    books: &Books,
    made: &RunMarket,
    block: &FullBlock,
    prices: &Prices,
    activation: &Activation,
    also: Option<&Prices>,
) -> Result<Option<Ledger>, Memory>
    // The run's market, as the folder's books give it.
    requires accepted { IsAccepted books.now }
    requires made { IsMarketOf books.now made.now }

    // What the block says of it was tested; the scheduled prices come with it if there are any.
    requires activation { activation.now ≡ activation_reported block.now }
    requires prices { prices.now.cents ≡ prices_reported block.now }
    requires feasible { IsFeasible made.now.market activation.now }
    requires consistent { IsConsistent made.now.market activation.now prices.now.cents }
    requires also { IfSome also (λ scheduled. ArePrices made.now.market scheduled.now.cents) }

    // No other ledger passes.
    ensures { IfOk result (IsReportedLedger books.now made.now (option_map (λ scheduled. scheduled.now.cents) also.entry) block.now activation.now prices.now) }
{
    let ledger = ledger_of(alloc, books, made, prices, activation, also)?;
    let places = providers_of(alloc, books.bids.bids.as_slice(), made.bids.as_slice())?;
    let is_stated = states_ledger(books, block, &ledger, &places);
    drop(places);
    if !is_stated {
        drop(ledger);
        return Ok(None);
    }
    Ok(Some(ledger))
}

/// Whether the block states this ledger, and of the providers those at these places.
fn states_ledger(books: &Books, block: &FullBlock, ledger: &Ledger, places: &[u32]) -> bool
    requires operators { length ledger.now.operators ≡ length books.now.zones.operators }
    requires providers { length ledger.now.providers ≡ length books.now.bids.providers }
    requires places { All (λ place. place < length books.now.bids.providers) places.now }
    requires small { HasSmallNumbers ledger.now }
    ensures { IsTrue result ↔ StatesLedger books.now block.now ledger.now places.now }
{
    let operators = ledger.operators.as_slice();
    let amounts = ledger.providers.as_slice();
    if !are_rents(block.borders.as_slice(), ledger.rents.as_slice()) {
        return false;
    }
    if !are_money_lines(
        block.operators.as_slice(),
        &books.zones.operators,
        operators,
    ) {
        return false;
    }
    are_amount_lines(
        block.providers.as_slice(),
        &books.bids.providers,
        amounts,
        places,
    )
}
