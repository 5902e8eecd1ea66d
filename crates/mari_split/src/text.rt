//! The texts of a day whose runs are cleared island by island.

ghost use Rattle.std.specs.Prelude.{◌≡◌, ◌++◌, ◌∷◌, ◌≤◌, [], IfOk, OnOk, codes, false, length, map};
ghost use Rattle.std.specs.Fmt.{decimal};
ghost use Rattle.std.specs.List.{All};
ghost use Rattle.mari_market.specs.declared.clearing.Clearing.{Clearing as ClearingRecord};
ghost use Rattle.mari_rows.specs.Names.{name_at};
ghost use Rattle.mari_lines.specs.Spelling.{published_text, spaced};
ghost use Rattle.mari_lines.specs.declared.line.Line.TheVariants as line;
ghost use Rattle.mari_publish.specs.Texts.{text_of_lines, words_line};
ghost use Rattle.mari_split.specs.Lines.{island_text, islands_text, split_block_text, split_head, split_run_text, unpublished_text};
ghost use Rattle.mari_split.specs.Steps.{RunFits, SplitFits};

use crate::split::{SplitBlock, SplitRun};
use mari_islands::Island;
use mari_lines::{Heading, put_done, put_end, put_field, put_heading, put_number_field};
use mari_market::Clearing;
use mari_publish::{put_market, put_opening, put_tree_lines};
use mari_rows::NameIndex;
use mari_units::{MOST_NODES, MOST_ZONES, Memory, Name, put};
use std::alloc::Global;

/// The text of the first line.
pub fn head_text(alloc: Global, date: &Name, quarters: u32, budget: u32) -> Result<Vec<u8>, Memory>
    ensures { IfOk result (λ text. text.items ≡ split_head date.now quarters budget) }
{
    let mut out = Vec::new(alloc);
    put(&mut out, b"split 1")?;
    put_field(&mut out, date.bytes())?;
    put_number_field(alloc, &mut out, u64::from(quarters))?;
    put_number_field(alloc, &mut out, u64::from(budget))?;
    put(&mut out, b"\n")?;
    Ok(out)
}

/// Appends the number of an island and a count of nodes, after the word that says that a run isn't published.
fn put_spent(alloc: Global, out: &mut Vec<u8>, island: u32, count: u32) -> Result<(), Memory>
    ensures { OnOk result (out.new.items ≡ out.old.items ++ spaced (published_text false ∷ decimal island ∷ decimal count ∷ [])) }
{
    put_field(out, b"unpublished")?;
    put_number_field(alloc, out, u64::from(island))?;
    put_number_field(alloc, out, u64::from(count))?;
    Ok(())
}

/// Appends the line of a run that isn't published: its heading, the number from 1 of the island for which the budget is
/// spent, and how many nodes were made for it.
fn put_unpublished(
    alloc: Global,
    out: &mut Vec<u8>,
    heading: Heading,
    island: u32,
    count: u32,
) -> Result<(), Memory>
    ensures { OnOk result (out.new.items ≡ out.old.items ++ unpublished_text heading island count) }
{
    put_heading(alloc, out, heading)?;
    put_spent(alloc, out, island, count)?;
    put(out, b"\n")
}

/// Appends the line of an island with its welfare.
fn put_island_line(
    alloc: Global,
    out: &mut Vec<u8>,
    number: u32,
    welfare: u64,
) -> Result<(), Memory>
    ensures { OnOk result (out.new.items ≡ out.old.items ++ words_line (codes "island") (decimal number ∷ decimal welfare ∷ [])) }
{
    put(out, b"island")?;
    put_number_field(alloc, out, u64::from(number))?;
    put_number_field(alloc, out, welfare)?;
    put(out, b"\n")
}

/// The name at a place, or nothing where there is none.
fn name_or_nothing(names: &NameIndex, place: u32) -> &[u8]
    ensures { result.now ≡ name_at names.now place }
{
    match names.name_at(place) {
        Some(name) => name,
        None => b"",
    }
}

/// Appends the names of zones as fields.
fn put_names(out: &mut Vec<u8>, names: &NameIndex, zones: &[u32]) -> Result<(), Memory>
    ensures { OnOk result (out.new.items ≡ out.old.items ++ spaced (map (name_at names.now) zones.now)) }
{
    for zone in zones {
        put_field(out, name_or_nothing(names, *zone))?;
    }
    Ok(())
}

/// Appends the line of an island's zones.
fn put_zones(out: &mut Vec<u8>, names: &NameIndex, zones: &[u32]) -> Result<(), Memory>
    ensures { OnOk result (out.new.items ≡ out.old.items ++ words_line (codes "zones") (map (name_at names.now) zones.now)) }
{
    put(out, b"zones")?;
    put_names(out, names, zones)?;
    put(out, b"\n")
}

/// Appends the lines of an island, whose number counts from 1.
fn put_island(
    alloc: Global,
    out: &mut Vec<u8>,
    names: &NameIndex,
    number: u32,
    island: &Island,
    clearing: &Clearing,
) -> Result<(), Memory>
    requires { length clearing.now.tree ≤ MOST_NODES }
    ensures { OnOk result (out.new.items ≡ out.old.items ++ island_text names.now number island.now clearing.now) }
{
    put_island_line(alloc, out, number, clearing.welfare)?;
    put_zones(out, names, island.zones.as_slice())?;
    put_tree_lines(alloc, out, clearing.tree.as_slice())
}

/// Appends the lines of all islands.
fn put_islands(
    alloc: Global,
    out: &mut Vec<u8>,
    names: &NameIndex,
    islands: &[Island],
    clearings: &[Clearing],
) -> Result<(), Memory>
    requires few { length islands.now ≤ MOST_ZONES }
    requires one_each { length clearings.now ≡ length islands.now }
    requires trees { All (λ (c : ClearingRecord). length c.tree ≤ MOST_NODES) clearings.now }
    ensures { OnOk result (out.new.items ≡ out.old.items ++ islands_text names.now 1 islands.now clearings.now) }
{
    for (place, island) in islands.iter().enumerate() {
        put_island(
            alloc,
            out,
            names,
            place as u32 + 1,
            island,
            &clearings[place],
        )?;
    }
    Ok(())
}

/// Appends a published run: its heading, its welfare and its market as in a publication, its islands, and its number
/// once more.
fn put_split_run(
    alloc: Global,
    out: &mut Vec<u8>,
    names: &NameIndex,
    run: &SplitRun,
) -> Result<(), Memory>
    requires { RunFits run.now }
    ensures { OnOk result (out.new.items ≡ out.old.items ++ split_run_text names.now run.now) }
{
    put_opening(alloc, out, &run.block)?;
    put_market(alloc, out, &run.block)?;
    put_islands(
        alloc,
        out,
        names,
        run.islands.as_slice(),
        run.clearings.as_slice(),
    )?;
    put_end(alloc, out, run.block.heading.run)
}

/// Appends a block.
fn put_block(
    alloc: Global,
    out: &mut Vec<u8>,
    names: &NameIndex,
    block: &SplitBlock,
) -> Result<(), Memory>
    requires { SplitFits block.now }
    ensures { OnOk result (out.new.items ≡ out.old.items ++ split_block_text names.now block.now) }
{
    match block {
        SplitBlock::Published(run) => put_split_run(alloc, out, names, run),
        SplitBlock::Unpublished(heading, island, count) => {
            put_unpublished(alloc, out, *heading, *island, *count)
        }
    }
}

/// The text of a block, whose zones have these names.
pub fn block_text(alloc: Global, names: &NameIndex, block: &SplitBlock) -> Result<Vec<u8>, Memory>
    requires { SplitFits block.now }
    ensures { IfOk result (λ text. text.items ≡ split_block_text names.now block.now) }
{
    let mut out = Vec::new(alloc);
    put_block(alloc, &mut out, names, block)?;
    Ok(out)
}

/// The text of the last line: how many runs are published, and how many aren't.
pub fn end_text(alloc: Global, published: u32, unpublished: u32) -> Result<Vec<u8>, Memory>
    ensures { IfOk result (λ text. text.items ≡ text_of_lines (line.Done published unpublished ∷ [])) }
{
    let mut out = Vec::new(alloc);
    put_done(alloc, &mut out, published, unpublished)?;
    Ok(out)
}
