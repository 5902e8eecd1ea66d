//! The text of a part.

ghost use Rattle.std.specs.Prelude.{◌≡◌, ◌++◌, IfOk, OnOk};
ghost use Rattle.serde_json.specs.Written.{compact_text};
ghost use Rattle.mari_reach_text.specs.Texts.{NamedFits};
ghost use Rattle.mari_reach_feed.specs.Texts.{IsReachLine, ReachPartFits, named_lines_text, named_rest_text};
ghost use Rattle.mari_reach_feed.specs.Values.{named_block_value, reach_json_of};

use crate::tree::{ClaimGap, PrintedItem};
use mari_feed::{
    Kind, put_head, put_ledger, put_market, put_next, put_next_list, put_outcome, put_totals,
};
use mari_reach_text::{NamedBlock, ReachPart};
use mari_units::Memory;
use std::alloc::Global;

/// Appends the bids, the borders, the demands, the gap and the kind of a block.
fn put_lines(text: &mut Vec<u8>, block: &NamedBlock) -> Result<(), Memory>
    requires { NamedFits block.now }
    ensures { OnOk result (text.new.items ≡ text.old.items ++ named_lines_text block.now) }
{
    put_market(text, &block.block)?;
    put_next::<ClaimGap>(text, "gap", &block.claim)?;
    put_next::<Kind>(text, "kind", &block.block.heading.direct)
}

/// Appends its tree, its welfare, its zones and its end.
fn put_rest(text: &mut Vec<u8>, block: &NamedBlock) -> Result<(), Memory>
    requires { NamedFits block.now }
    ensures { OnOk result (text.new.items ≡ text.old.items ++ named_rest_text block.now) }
{
    put_next_list::<PrintedItem>(text, "tree", block.tree.as_slice())?;
    put_outcome(text, &block.block)
}

/// Appends a block.
fn put_block(text: &mut Vec<u8>, block: &NamedBlock) -> Result<(), Memory>
    requires { NamedFits block.now }
    ensures { OnOk result (text.new.items ≡ text.old.items ++ compact_text (named_block_value block.now)) }
{
    put_lines(text, block)?;
    put_ledger(text, &block.block)?;
    put_rest(text, block)
}

/// Appends a part.
fn put_part(text: &mut Vec<u8>, part: &ReachPart) -> Result<(), Memory>
    requires { ReachPartFits part.now }
    ensures { OnOk result (text.new.items ≡ text.old.items ++ reach_json_of part.now) }
{
    match part {
        ReachPart::Head {
            date,
            quarters,
            budget,
        } => put_head(text, date, *quarters, *budget),
        ReachPart::Block(block) => put_block(text, block),
        ReachPart::Totals {
            operators,
            providers,
        } => put_totals(text, operators.as_slice(), providers.as_slice()),
    }
}

/// The line of a part without its line feed: compact JSON with the keys of each object in the order of their bytes.
/// Prices are in cents per MWh, money in quarter-cents, quantities in MW, and zones are counted from 1.
pub fn reach_part_text(alloc: Global, part: &ReachPart) -> Result<Vec<u8>, Memory>
    requires { ReachPartFits part.now }
    ensures text { IfOk result (λ text. text.items ≡ reach_json_of part.now) }
    ensures line { IfOk result (λ text. IsReachLine text.items part.now) }
{
    let mut text = Vec::new(alloc);
    put_part(&mut text, part)?;
    Ok(text)
}
