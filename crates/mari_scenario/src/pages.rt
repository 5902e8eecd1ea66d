//! The pages of a number.

ghost use Rattle.std.specs.Prelude.{◌≡◌, ◌++◌, ◌∷◌, ◌≤◌, ℕ, List, IfOk, OnOk, length};
ghost use lib.Chars.{codes};
ghost use Rattle.std.specs.List.{All};
ghost use Rattle.mari_io.specs.Memory.{pages_of};
ghost use Rattle.mari_scenario.specs.Accepted.{AreAccepted, IsShort};
ghost use Rattle.mari_scenario.specs.Draws.{lines};
ghost use Rattle.mari_scenario.specs.Pages.{bids_at, borders_at, day_text, demands_at, link_lines, links_text, runs_at, scenario_at, with_page, zone_line, zones_text};
ghost use Rattle.mari_zones.specs.Borders.{border_columns};
ghost use Rattle.mari_bids.specs.Bids.{bid_columns};
ghost use Rattle.mari_demands.specs.Runs.{run_columns};
ghost use Rattle.mari_demands.specs.Demands.{demand_columns};

use crate::lines::{
    put_bid_line, put_border_line, put_demand_line, put_link_lines, put_run_line, put_zone_line,
};
use mari_io::{Name64, Page};
use mari_units::{Items, LAST_NUMBER, Memory};
use std::alloc::Global;

/// A text that begins with these bytes.
fn text_of(alloc: Global, head: &[u8]) -> Result<Vec<u8>, Memory>
    ensures { IfOk result (λ text. text.items ≡ head.now) }
{
    let mut text = Vec::new(alloc);
    text.extend_from_slice(head)?;
    Ok(text)
}

/// Adds the page of this name with this text.
fn add_page(alloc: Global, pages: &mut Vec<Page>, name: &str, text: Vec<u8>) -> Result<(), Memory>
    requires some { 1 ≤ length name.now }
    requires short { length name.now ≤ 64 }
    ensures { (bytes : List ℕ) → text.items ≡ bytes
        → OnOk result (pages_of pages.new.items ≡ with_page (pages_of pages.old.items) name.now bytes) }
{
    let page = Page {
        name: Name64::of(alloc, name)?,
        bytes: Items::of(text),
    };
    pages.push(page)?;
    Ok(())
}

/// Appends the lines of the zones.
fn put_zones(alloc: Global, out: &mut Vec<u8>) -> Result<(), Memory>
    ensures text { OnOk result (out.new.items ≡ out.old.items ++ (lines zone_line 8 0).text) }
{
    let mut state = 0;
    for i in 0..8 {
        state = put_zone_line(alloc, out, i, state)?;
    }
    Ok(())
}

/// Appends the lines of the borders, from the state before them.
fn put_borders(alloc: Global, out: &mut Vec<u8>, number: u32) -> Result<u32, Memory>
    ensures text { OnOk result (out.new.items ≡ out.old.items ++ (borders_at number).text) }
    ensures state { IfOk result (λ after. after ≡ (borders_at number).state) }
{
    let mut state = number;
    for i in 0..10 {
        state = put_border_line(alloc, out, i, state)?;
    }
    Ok(state)
}

/// Appends the lines of the bids, from the state before them.
fn put_bids(alloc: Global, out: &mut Vec<u8>, number: u32) -> Result<u32, Memory>
    ensures text { OnOk result (out.new.items ≡ out.old.items ++ (bids_at number).text) }
    ensures state { IfOk result (λ after. after ≡ (bids_at number).state) }
{
    let mut state = number;
    for i in 0..960 {
        state = put_bid_line(alloc, out, i, state)?;
    }
    Ok(state)
}

/// Appends the lines of the links.
fn put_links(alloc: Global, out: &mut Vec<u8>) -> Result<(), Memory>
    ensures text { OnOk result (out.new.items ≡ out.old.items ++ (lines link_lines 24 0).text) }
{
    let mut state = 0;
    for i in 0..24 {
        state = put_link_lines(alloc, out, i, state)?;
    }
    Ok(())
}

/// Appends the lines of the runs, from the state before them.
fn put_runs(alloc: Global, out: &mut Vec<u8>, number: u32) -> Result<u32, Memory>
    ensures text { OnOk result (out.new.items ≡ out.old.items ++ (runs_at number).text) }
    ensures state { IfOk result (λ after. after ≡ (runs_at number).state) }
{
    let mut state = number;
    for i in 0..24 {
        state = put_run_line(alloc, out, i, state)?;
    }
    Ok(state)
}

/// Appends the lines of the demands, from the state before them.
fn put_demands(alloc: Global, out: &mut Vec<u8>, number: u32) -> Result<u32, Memory>
    ensures text { OnOk result (out.new.items ≡ out.old.items ++ (demands_at number).text) }
    ensures state { IfOk result (λ after. after ≡ (demands_at number).state) }
{
    let mut state = number;
    for i in 0..192 {
        state = put_demand_line(alloc, out, i, state)?;
    }
    Ok(state)
}

/// Adds the page of the day.
fn add_day(alloc: Global, pages: &mut Vec<Page>) -> Result<(), Memory>
    ensures { OnOk result (pages_of pages.new.items ≡ with_page (pages_of pages.old.items) (codes "s/day.csv") day_text) }
{
    let text = text_of(alloc, b"date,rule\n2025-03-12,UTC0\n")?;
    add_page(alloc, pages, "s/day.csv", text)
}

/// Adds the page of the zones.
fn add_zones(alloc: Global, pages: &mut Vec<Page>) -> Result<(), Memory>
    ensures { OnOk result (pages_of pages.new.items ≡ with_page (pages_of pages.old.items) (codes "s/zones.csv") zones_text) }
{
    let mut text = text_of(alloc, b"zone,operator\n")?;
    put_zones(alloc, &mut text)?;
    add_page(alloc, pages, "s/zones.csv", text)
}

/// Adds the page of the borders, from the state before them.
fn add_borders(alloc: Global, pages: &mut Vec<Page>, number: u32) -> Result<u32, Memory>
    ensures page { OnOk result
        (pages_of pages.new.items ≡ with_page (pages_of pages.old.items) (codes "s/borders.csv") (border_columns ++ 10 ∷ (borders_at number).text)) }
    ensures state { IfOk result (λ after. after ≡ (borders_at number).state) }
{
    let mut text = text_of(alloc, b"from,to,limit,back\n")?;
    let after = put_borders(alloc, &mut text, number)?;
    add_page(alloc, pages, "s/borders.csv", text)?;
    Ok(after)
}

/// Adds the page of the bids, from the state before them.
fn add_bids(alloc: Global, pages: &mut Vec<Page>, number: u32) -> Result<u32, Memory>
    ensures page { OnOk result
        (pages_of pages.new.items ≡ with_page (pages_of pages.old.items) (codes "s/bids.csv") (bid_columns ++ 10 ∷ (bids_at number).text)) }
    ensures state { IfOk result (λ after. after ≡ (bids_at number).state) }
{
    let mut text = text_of(
        alloc,
        b"id,provider,zone,quarter,direction,price,least,greatest,kind\n",
    )?;
    let after = put_bids(alloc, &mut text, number)?;
    add_page(alloc, pages, "s/bids.csv", text)?;
    Ok(after)
}

/// Adds the page of the links.
fn add_links(alloc: Global, pages: &mut Vec<Page>) -> Result<(), Memory>
    ensures { OnOk result (pages_of pages.new.items ≡ with_page (pages_of pages.old.items) (codes "s/links.csv") links_text) }
{
    let mut text = text_of(alloc, b"kind,first,second\n")?;
    put_links(alloc, &mut text)?;
    add_page(alloc, pages, "s/links.csv", text)
}

/// Adds the page of the runs, from the state before them.
fn add_runs(alloc: Global, pages: &mut Vec<Page>, number: u32) -> Result<u32, Memory>
    ensures page { OnOk result
        (pages_of pages.new.items ≡ with_page (pages_of pages.old.items) (codes "s/runs.csv") (run_columns ++ 10 ∷ (runs_at number).text)) }
    ensures state { IfOk result (λ after. after ≡ (runs_at number).state) }
{
    let mut text = text_of(alloc, b"run,quarter,kind,reference\n")?;
    let after = put_runs(alloc, &mut text, number)?;
    add_page(alloc, pages, "s/runs.csv", text)?;
    Ok(after)
}

/// Adds the page of the demands, from the state before them.
fn add_demands(alloc: Global, pages: &mut Vec<Page>, number: u32) -> Result<(), Memory>
    ensures { OnOk result
        (pages_of pages.new.items ≡ with_page (pages_of pages.old.items) (codes "s/demands.csv") (demand_columns ++ 10 ∷ (demands_at number).text)) }
{
    let mut text = text_of(alloc, b"run,zone,mw,price\n")?;
    put_demands(alloc, &mut text, number)?;
    add_page(alloc, pages, "s/demands.csv", text)
}

/// Adds the pages of a number, of which the borders, the bids, the runs and the demands draw in this order.
#[tactic(auto, unfolding(crate::specs::Pages::scenario_at))]
fn add_pages(alloc: Global, pages: &mut Vec<Page>, number: u32) -> Result<(), Memory>
    ensures { OnOk result (pages_of pages.new.items ≡ pages_of pages.old.items ++ scenario_at number) }
{
    add_day(alloc, pages)?;
    add_zones(alloc, pages)?;
    let before_bids = add_borders(alloc, pages, number)?;
    let before_runs = add_bids(alloc, pages, before_bids)?;
    add_links(alloc, pages)?;
    let before_demands = add_runs(alloc, pages, before_runs)?;
    add_demands(alloc, pages, before_demands)
}

/// The pages of a number.
fn drawn_pages(alloc: Global, number: u32) -> Result<Vec<Page>, Memory>
    ensures pages { IfOk result (λ pages. pages_of pages.items ≡ scenario_at number) }
{
    let mut pages = Vec::new(alloc);
    add_pages(alloc, &mut pages, number)?;
    Ok(pages)
}

/// The seven pages of a generated day, under folder `s`.
///
/// The day is 12 March 2025 in UTC, of 96 quarter hours. It has eight zones, ten borders, 960 bids, 24 runs and 192
/// demands; the number alone decides what is drawn.
pub fn scenario_pages(alloc: Global, number: u32) -> Result<Vec<Page>, Memory>
    requires { number ≤ LAST_NUMBER }
    ensures pages { IfOk result (λ pages. pages_of pages.items ≡ scenario_at number) }
    ensures short { IfOk result (λ pages. All IsShort (pages_of pages.items)) }
    ensures accepted { IfOk result (λ pages. AreAccepted (pages_of pages.items)) }
{
    drawn_pages(alloc, number)
}
