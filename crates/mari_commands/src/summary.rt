//! The summary of a generated day: how large it is, the welfare of each run, and their sum.

ghost use Rattle.std.specs.Prelude.{◌≡◌, ◌≤◌, ◌++◌, IfOk, OnOk, length};
ghost use Rattle.std.specs.List.{flat_map};
ghost use Rattle.mari_commands.specs.Summary.{heading_line, number_line, run_line as run_text, summary_of, welfare_in, welfare_sum};

use mari_publish::Block;
use mari_remain::Books;
use mari_units::{MOST_RUNS, Memory, put, put_number};
use std::alloc::Global;

/// Appends a number after a word, and the line's end.
fn put_line(alloc: Global, text: &mut Vec<u8>, word: &[u8], number: u128) -> Result<(), Memory>
    ensures { OnOk result (text.new.items ≡ text.old.items ++ number_line word.now number) }
{
    put(text, word)?;
    put_number(alloc, text, number)?;
    put(text, b"\n")
}

/// Appends the line with the numbers of a generated day and of its zones, borders, bids and runs.
fn put_heading(alloc: Global, text: &mut Vec<u8>, number: u32, books: &Books) -> Result<(), Memory>
    ensures { OnOk result (text.new.items ≡ text.old.items ++ heading_line number books.now) }
{
    put(text, b"generated ")?;
    put_number(alloc, text, u128::from(number))?;
    put(text, b" zones ")?;
    put_number(alloc, text, u128::from(books.zones.zones.len()))?;
    put(text, b" borders ")?;
    put_number(alloc, text, books.borders.borders.as_slice().len() as u128)?;
    put(text, b" bids ")?;
    put_number(alloc, text, books.bids.bids.as_slice().len() as u128)?;
    put_line(
        alloc,
        text,
        b" runs ",
        books.runs.runs.as_slice().len() as u128,
    )
}

/// Appends the line of a published block; of an unpublished one it appends nothing.
fn put_run(alloc: Global, text: &mut Vec<u8>, block: &Block) -> Result<(), Memory>
    ensures { OnOk result (text.new.items ≡ text.old.items ++ run_text block.now) }
{
    match block {
        Block::Published(full) => {
            put(text, b"run ")?;
            put_number(alloc, text, u128::from(full.heading.run))?;
            put_line(alloc, text, b" welfare ", u128::from(full.welfare))
        }
        Block::Unpublished(_, _) => Ok(()),
    }
}

/// Appends the lines of blocks.
fn put_runs(alloc: Global, text: &mut Vec<u8>, blocks: &[Block]) -> Result<(), Memory>
    ensures { OnOk result (text.new.items ≡ text.old.items ++ flat_map run_text blocks.now) }
{
    for block in blocks {
        put_run(alloc, text, block)?;
    }
    Ok(())
}

/// The welfare of a block, in quarter-cents.
fn welfare_of(block: &Block) -> u64
    ensures { result ≡ welfare_in block.now }
{
    match block {
        Block::Published(full) => full.welfare,
        Block::Unpublished(_, _) => 0,
    }
}

/// The sum of the welfares of blocks, in quarter-cents.
#[tactic(auto, unfolding(crate::specs::Summary::welfare_sum))]
fn sum_of(blocks: &[Block]) -> u128
    requires { length blocks.now ≤ MOST_RUNS }
    ensures { result ≡ welfare_sum blocks.now }
{
    let mut sum: u128 = 0;
    for block in blocks {
        sum += u128::from(welfare_of(block));
    }
    sum
}

/// The summary of a day of these books, whose runs have these blocks.
pub fn summary_text(
    alloc: Global,
    number: u32,
    books: &Books,
    blocks: &[Block],
) -> Result<Vec<u8>, Memory>
    requires { length blocks.now ≤ MOST_RUNS }
    ensures { IfOk result (λ text. text.items ≡ summary_of number books.now blocks.now) }
{
    let mut text = Vec::new(alloc);
    put_heading(alloc, &mut text, number, books)?;
    put_runs(alloc, &mut text, blocks)?;
    put_line(alloc, &mut text, b"sum ", sum_of(blocks))?;
    Ok(text)
}
