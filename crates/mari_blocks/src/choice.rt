//! Which available bids of the quarters stay: those of no block, and those of a block that is available whole.
ghost use Rattle.std.specs.Prelude.{◌≡◌, ◌<◌, ℕ, Some, false, get_or, length, IfOk};
ghost use Rattle.std.specs.List.{All};
ghost use Rattle.std.specs.Option.{option_map_or};
ghost use Rattle.mari_blocks.specs.Blocks.{block_at};
ghost use Rattle.mari_blocks.specs.Joint.{is_left_out, is_one_of, kept_bids as kept_of};

use crate::blocks::BlockBook;
use mari_units::Memory;
use std::alloc::Global;

/// A mark for each of `bids` bids: whether its number is among these.
fn marks_of(alloc: Global, bids: usize, numbers: &[u32]) -> Result<Vec<bool>, Memory>
    requires { All (λ number. number < bids) numbers.now }
    ensures sized { IfOk result (λ marks. length marks.items ≡ bids) }
    ensures marks { IfOk result (λ marks. (bid : ℕ) → get_or marks.items bid false ≡ is_one_of numbers.now bid) }
{
    let mut marks = vec![in alloc; false; bids]?;
    for number in numbers {
        marks[*number as usize] = true;
    }
    Ok(marks)
}

/// Marks the blocks that are left out, since one of their bids isn't available.
fn left_out(alloc: Global, blocks: &BlockBook, offered: &[u32]) -> Result<Vec<bool>, Memory>
    requires there { (bid block : ℕ) → block_at blocks.now bid ≡ Some block → block < length blocks.now.names }
    requires offered { All (λ number. number < length blocks.now.block_of) offered.now }
    ensures { IfOk result (λ marks. (block : ℕ) → get_or marks.items block false ≡ is_left_out blocks.now offered.now block) }
{
    let entries = blocks.block_of.as_slice();
    let available = marks_of(alloc, entries.len(), offered)?;
    let mut marks = vec![in alloc; false; blocks.names.len() as usize]?;
    for (bid, entry) in entries.iter().enumerate() {
        if let Some(block) = *entry {
            if !available[bid] {
                marks[block as usize] = true;
            }
        }
    }
    Ok(marks)
}

/// The block of a bid, if it is in one.
pub(crate) fn block_of(blocks: &BlockBook, bid: u32) -> Option<u32>
    ensures { result ≡ block_at blocks.now bid }
{
    blocks
        .block_of
        .as_slice()
        .get(bid as usize)
        .copied()
        .unwrap_or(None)
}

/// Whether a bid is one of a block that is marked.
fn is_out(blocks: &BlockBook, marks: &[bool], bid: u32) -> bool
    ensures { result ≡ option_map_or (λ block. get_or marks.now block false) (block_at blocks.now bid) false }
{
    match block_of(blocks, bid) {
        Some(block) => marks.get(block as usize).copied().unwrap_or(false),
        None => false,
    }
}

/// Those of the available bids that stay.
pub(crate) fn kept_bids(
    alloc: Global,
    blocks: &BlockBook,
    offered: &[u32],
) -> Result<Vec<u32>, Memory>
    requires there { (bid block : ℕ) → block_at blocks.now bid ≡ Some block → block < length blocks.now.names }
    requires offered { All (λ number. number < length blocks.now.block_of) offered.now }
    ensures { IfOk result (λ numbers. numbers.items ≡ kept_of blocks.now offered.now) }
{
    let out = left_out(alloc, blocks, offered)?;
    let mut numbers = Vec::new(alloc);
    for bid in offered {
        if !is_out(blocks, &out, *bid) {
            numbers.push(*bid)?;
        }
    }
    Ok(numbers)
}
