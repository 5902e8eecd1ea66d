//! The pages that state a folder's limits for each run. That they are read, and change no market, is the law
//! `migration_keeps_markets`.

ghost use Rattle.std.specs.Prelude.{◌≡◌, ◌≤◌, [], ◌∷◌, ◌++◌, IfOk, OnOk, length, map};
ghost use Rattle.std.specs.Fmt.{decimal};
ghost use Rattle.std.specs.List.{flat_map, range_with_len};
ghost use Rattle.mari_rows.specs.Names.{name_at};
ghost use Rattle.mari_rows.specs.Printed.{line_of};
ghost use Rattle.mari_remain.specs.Accepted.{IsAccepted};
ghost use Rattle.mari_remain.specs.Migrated.{border_record, borders_page, limit_record, limits_page, run_records};

use crate::books::Books;
use crate::borders::limits_of;
use mari_demands::{LIMIT_COLUMNS, Limits};
use mari_units::{Memory, put, put_number};
use mari_zones::{BARE_COLUMNS, BorderEnds, ZoneBook};
use std::alloc::Global;

/// Appends the names of a page's columns, as its first line.
fn put_columns(text: &mut Vec<u8>, columns: &str) -> Result<(), Memory>
    ensures { OnOk result (text.new.items ≡ text.old.items ++ columns.now ++ 10 ∷ []) }
{
    put(text, columns.as_bytes())?;
    put(text, b"\n")
}

/// Appends the name of a zone.
fn put_zone(text: &mut Vec<u8>, zones: &ZoneBook, zone: u32) -> Result<(), Memory>
    ensures { OnOk result (text.new.items ≡ text.old.items ++ name_at zones.now.zones zone) }
{
    let name = zones.zones.name_at(zone).unwrap_or(b"");
    put(text, name)
}

/// Appends the names of a border's zones, with a comma between.
fn put_ends(text: &mut Vec<u8>, zones: &ZoneBook, ends: BorderEnds) -> Result<(), Memory>
    ensures { OnOk result (text.new.items ≡ text.old.items ++ name_at zones.now.zones ends.from ++ 44 ∷ name_at zones.now.zones ends.to) }
{
    put_zone(text, zones, ends.from)?;
    put(text, b",")?;
    put_zone(text, zones, ends.to)
}

/// Appends the line of a border.
fn put_border(text: &mut Vec<u8>, zones: &ZoneBook, ends: BorderEnds) -> Result<(), Memory>
    ensures { OnOk result (text.new.items ≡ text.old.items ++ line_of (border_record zones.now ends)) }
{
    put_ends(text, zones, ends)?;
    put(text, b"\n")
}

/// Appends limits, each after a comma.
fn put_limits(alloc: Global, text: &mut Vec<u8>, limits: Limits) -> Result<(), Memory>
    ensures { OnOk result (text.new.items ≡ text.old.items ++ 44 ∷ decimal limits.limit ++ 44 ∷ decimal limits.back) }
{
    put(text, b",")?;
    put_number(alloc, text, u128::from(limits.limit))?;
    put(text, b",")?;
    put_number(alloc, text, u128::from(limits.back))
}

/// Appends the line of a border's limits in a run.
fn put_line(
    alloc: Global,
    text: &mut Vec<u8>,
    zones: &ZoneBook,
    run: u32,
    ends: BorderEnds,
    limits: Limits,
) -> Result<(), Memory>
    ensures { OnOk result (text.new.items ≡ text.old.items ++ line_of (limit_record zones.now run ends limits)) }
{
    put_number(alloc, text, u128::from(run))?;
    put(text, b",")?;
    put_ends(text, zones, ends)?;
    put_limits(alloc, text, limits)?;
    put(text, b"\n")
}

/// Appends the lines of a run: its limits of each border.
fn put_run(alloc: Global, text: &mut Vec<u8>, books: &Books, run: u32) -> Result<(), Memory>
    requires accepted { IsAccepted books.now }
    requires first { 1 ≤ run }
    requires last { run ≤ length books.now.runs.runs }
    ensures { OnOk result (text.new.items ≡ text.old.items ++ flat_map line_of (run_records books.now run)) }
{
    for (number, ends) in books.borders.borders.as_slice().iter().enumerate() {
        let limits = limits_of(books, run, number as u32, *ends);
        put_line(alloc, text, &books.zones, run, *ends, limits)?;
    }
    Ok(())
}

/// Appends the lines of borders.
fn put_borders(text: &mut Vec<u8>, zones: &ZoneBook, borders: &[BorderEnds]) -> Result<(), Memory>
    ensures { OnOk result (text.new.items ≡ text.old.items ++ flat_map line_of (map (border_record zones.now) borders.now)) }
{
    for ends in borders {
        put_border(text, zones, *ends)?;
    }
    Ok(())
}

/// Appends the lines of every run.
fn put_runs(alloc: Global, text: &mut Vec<u8>, books: &Books) -> Result<(), Memory>
    requires { IsAccepted books.now }
    ensures { OnOk result
        (text.new.items ≡ text.old.items ++ flat_map line_of (flat_map (run_records books.now) (range_with_len 1 (length books.now.runs.runs)))) }
{
    for run in 0..books.runs.runs.as_slice().len() as u32 {
        put_run(alloc, text, books, run + 1)?;
    }
    Ok(())
}

/// The page of borders of version 2 for a folder: its borders, in order, without their limits.
#[tactic(auto, unfolding(mari_zones::specs::Borders::bare_columns))]
pub fn borders_text(alloc: Global, books: &Books) -> Result<Vec<u8>, Memory>
    ensures { IfOk result (λ text. text.items ≡ borders_page books.now) }
{
    let mut text = Vec::new(alloc);
    put_columns(&mut text, BARE_COLUMNS)?;
    put_borders(&mut text, &books.zones, books.borders.borders.as_slice())?;
    Ok(text)
}

/// The page of limits of version 2 for a folder: for each run, in order, the limits of each border, in order, that
/// the folder states, in MW.
#[tactic(auto, unfolding(mari_demands::specs::Limits::limit_columns))]
pub fn limits_text(alloc: Global, books: &Books) -> Result<Vec<u8>, Memory>
    requires { IsAccepted books.now }
    ensures { IfOk result (λ text. text.items ≡ limits_page books.now) }
{
    let mut text = Vec::new(alloc);
    put_columns(&mut text, LIMIT_COLUMNS)?;
    put_runs(alloc, &mut text, books)?;
    Ok(text)
}
