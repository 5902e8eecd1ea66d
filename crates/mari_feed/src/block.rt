//! Blocks and totals as objects.

ghost use Rattle.std.specs.Prelude.{◌≡◌, ◌++◌, OnOk};
ghost use Rattle.serde_json.specs.View.{view};
ghost use Rattle.serde_json.specs.Written.{compact_text};
ghost use Rattle.mari_lines.specs.Ranges.{InRange};
ghost use Rattle.mari_lines.specs.declared.line.Line.TheVariants as line;
ghost use Rattle.mari_publish.specs.Ranges.{BlockFits, FullFits, SumsFit};
ghost use Rattle.mari_feed.specs.Ranges.{FitsButTree};
ghost use Rattle.mari_feed.specs.Reading.{Reads};
ghost use Rattle.mari_feed.specs.Texts.{ledger_text, lines_text, market_text, outcome_text, rest_text};
ghost use Rattle.mari_feed.specs.Values.{full_value, unpublished_value, block_value, totals_value};

use crate::fault::FeedFault;
use crate::form::{Form, Printed};
use crate::members::{Members, has_key};
use crate::numbers::{Megawatts, Nodes, Quarter, Run, Welfare};
use crate::text::{put_end, put_first, put_first_list, put_next, put_next_list};
use crate::words::Kind;
use mari_market::TreeItem;
use mari_publish::{
    AmountLine, BidLine, Block, BorderLine, FullBlock, Heading, MoneyLine, ZoneLine,
};
use mari_units::{
    Items, MOST_BIDS, MOST_BORDERS, MOST_DEMANDS, MOST_NODES, MOST_PROVIDERS, MOST_ZONES, Memory,
};
use serde_json::Value;
use std::alloc::Global;

/// Appends the bids, the borders and the demands of a block.
pub fn put_market(text: &mut Vec<u8>, block: &FullBlock) -> Result<(), Memory>
    requires { FitsButTree block.now }
    ensures { OnOk result (text.new.items ≡ text.old.items ++ market_text block.now) }
{
    put_first_list::<BidLine>(text, "bids", block.bids.as_slice())?;
    put_next_list::<BorderLine>(text, "borders", block.borders.as_slice())?;
    put_next_list::<Megawatts>(text, "demands", block.demands.as_slice())
}

/// The same and its kind.
fn put_lines(text: &mut Vec<u8>, block: &FullBlock) -> Result<(), Memory>
    requires { FullFits block.now }
    ensures { OnOk result (text.new.items ≡ text.old.items ++ lines_text block.now) }
{
    put_market(text, block)?;
    put_next::<Kind>(text, "kind", &block.heading.direct)
}

/// Appends what each operator and each provider gets in it, its quarter and its number.
pub fn put_ledger(text: &mut Vec<u8>, block: &FullBlock) -> Result<(), Memory>
    requires { FitsButTree block.now }
    ensures { OnOk result (text.new.items ≡ text.old.items ++ ledger_text block.now) }
{
    put_next_list::<MoneyLine>(text, "operators", block.operators.as_slice())?;
    put_next_list::<AmountLine>(text, "providers", block.providers.as_slice())?;
    put_next::<Quarter>(text, "quarter", &block.heading.quarter)?;
    put_next::<Run>(text, "run", &block.heading.run)
}

/// Appends its welfare, its zones and its end.
pub fn put_outcome(text: &mut Vec<u8>, block: &FullBlock) -> Result<(), Memory>
    requires { FitsButTree block.now }
    ensures { OnOk result (text.new.items ≡ text.old.items ++ outcome_text block.now) }
{
    put_next::<Welfare>(text, "welfare", &block.welfare)?;
    put_next_list::<ZoneLine>(text, "zones", block.zones.as_slice())?;
    put_end(text)
}

/// Appends its certificate tree, its welfare, its zones and its end.
fn put_rest(text: &mut Vec<u8>, block: &FullBlock) -> Result<(), Memory>
    requires { FullFits block.now }
    ensures { OnOk result (text.new.items ≡ text.old.items ++ rest_text block.now) }
{
    put_next_list::<TreeItem>(text, "tree", block.tree.as_slice())?;
    put_outcome(text, block)
}

impl Printed for FullBlock {
    type Item = FullBlock;

    ghost written = { full_value };

    ghost InItsRange = { FullFits };

    fn put(text: &mut Vec<u8>, block: &FullBlock) -> Result<(), Memory> {
        put_lines(text, block)?;
        put_ledger(text, block)?;
        put_rest(text, block)
    }
}

impl Form for FullBlock {
    fn read(alloc: Global, value: &Value) -> Result<FullBlock, FeedFault> {
        let mut members = Members::of(value)?;
        let bids = members.list::<BidLine>(alloc, "bids", 0, MOST_BIDS)?;
        let borders = members.list::<BorderLine>(alloc, "borders", 0, MOST_BORDERS)?;
        let demands = members.list::<Megawatts>(alloc, "demands", 0, MOST_DEMANDS)?;
        let direct = members.item::<Kind>(alloc, "kind")?;
        let operators = members.list::<MoneyLine>(alloc, "operators", 1, MOST_ZONES)?;
        let providers = members.list::<AmountLine>(alloc, "providers", 0, MOST_BIDS)?;
        let quarter = members.item::<Quarter>(alloc, "quarter")?;
        let run = members.item::<Run>(alloc, "run")?;
        let tree = members.list::<TreeItem>(alloc, "tree", 1, MOST_NODES as usize)?;
        let welfare = members.item::<Welfare>(alloc, "welfare")?;
        let zones = members.list::<ZoneLine>(alloc, "zones", 1, MOST_ZONES)?;
        members.end()?;
        Ok(FullBlock {
            heading: Heading {
                run,
                quarter,
                direct,
            },
            welfare,
            zones,
            borders,
            bids,
            demands,
            tree,
            operators,
            providers,
        })
    }
}

/// Appends a block that isn't published.
fn put_unpublished(text: &mut Vec<u8>, heading: Heading, nodes: u32) -> Result<(), Memory>
    requires { InRange (line.Unpublished heading nodes) }
    ensures { OnOk result (text.new.items ≡ text.old.items ++ compact_text (unpublished_value heading nodes)) }
{
    put_first::<Kind>(text, "kind", &heading.direct)?;
    put_next::<Nodes>(text, "nodes", &nodes)?;
    put_next::<Quarter>(text, "quarter", &heading.quarter)?;
    put_next::<Run>(text, "run", &heading.run)?;
    put_end(text)
}

/// The heading and the count of nodes of a block that isn't published.
fn read_unpublished(alloc: Global, value: &Value) -> Result<(Heading, u32), FeedFault>
    ensures { Reads (λ x. InRange (line.Unpublished x.0 x.1)) (λ x. unpublished_value x.0 x.1) (view value.now) result }
{
    let mut members = Members::of(value)?;
    let direct = members.item::<Kind>(alloc, "kind")?;
    let nodes = members.item::<Nodes>(alloc, "nodes")?;
    let quarter = members.item::<Quarter>(alloc, "quarter")?;
    let run = members.item::<Run>(alloc, "run")?;
    members.end()?;
    let heading = Heading {
        run,
        quarter,
        direct,
    };
    Ok((heading, nodes))
}

impl Printed for Block {
    type Item = Block;

    ghost written = { block_value };

    ghost InItsRange = { BlockFits };

    fn put(text: &mut Vec<u8>, block: &Block) -> Result<(), Memory> {
        match block {
            Block::Published(full) => FullBlock::put(text, full),
            Block::Unpublished(heading, nodes) => put_unpublished(text, *heading, *nodes),
        }
    }
}

impl Form for Block {
    fn read(alloc: Global, value: &Value) -> Result<Block, FeedFault> {
        if has_key(value, "nodes") {
            let (heading, nodes) = read_unpublished(alloc, value)?;
            return Ok(Block::Unpublished(heading, nodes));
        }
        Ok(Block::Published(FullBlock::read(alloc, value)?))
    }
}

/// Appends the totals.
pub fn put_totals(
    text: &mut Vec<u8>,
    operators: &[MoneyLine],
    providers: &[AmountLine],
) -> Result<(), Memory>
    requires { SumsFit operators.now providers.now }
    ensures { OnOk result (text.new.items ≡ text.old.items ++ compact_text (totals_value operators.now providers.now)) }
{
    put_first_list::<MoneyLine>(text, "operators", operators)?;
    put_next_list::<AmountLine>(text, "providers", providers)?;
    put_end(text)
}

/// The totals that have this value.
pub fn read_totals(
    alloc: Global,
    value: &Value,
) -> Result<(Items<MoneyLine>, Items<AmountLine>), FeedFault>
    ensures { Reads (λ x. SumsFit x.0 x.1) (λ x. totals_value x.0 x.1) (view value.now) result }
{
    let mut members = Members::of(value)?;
    let operators = members.list::<MoneyLine>(alloc, "operators", 1, MOST_ZONES)?;
    let providers = members.list::<AmountLine>(alloc, "providers", 0, MOST_PROVIDERS)?;
    members.end()?;
    Ok((operators, providers))
}
