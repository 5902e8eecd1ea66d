//! A joint market cleared, and its text.
ghost use Rattle.std.specs.Prelude.{◌≡◌, ◌≤◌, Ok, ℕ, IfOk};
ghost use Rattle.mari_market.specs.Clearing.{IsBudget, IsClearing};
ghost use Rattle.mari_market.specs.Market.{IsValid};
ghost use Rattle.mari_remain.specs.Accepted.{IsAccepted};
ghost use Rattle.mari_blocks.specs.Blocks.{IsBlockBook};
ghost use Rattle.mari_blocks.specs.Joint.{joint_in};
ghost use Rattle.mari_blocks.specs.Printed.{GivesText, IsTextOf};
ghost use Rattle.mari_blocks.specs.declared.blocks.BlockBook.{BlockBook as BookOfBlocks};

use crate::blocks::BlockBook;
use crate::checks::JointFault;
use crate::joint::{Joint, joint_market};
use crate::printing::joint_block;
use crate::text::{joint_text, unpublished_text};
use mari_market::{Cleared, Clearer, Clearing};
use mari_remain::Books;
use mari_units::{Items, MOST_QUARTERS, Memory};
use std::alloc::Global;

/// What is printed of a joint market.
#[derive(Drop)]
pub struct JointText {
    /// Its text.
    pub text: Items<u8>,
    /// Whether it is published; else its search tree has more nodes than the budget.
    pub published: bool,
}

/// The text of a joint market that is published.
fn published_text(
    alloc: Global,
    books: &Books,
    first: u32,
    last: u32,
    joint: &Joint,
    clearing: Clearing,
) -> Result<JointText, Memory>
    requires accepted { IsAccepted books.now }
    requires in_order { first ≤ last }
    requires last { last ≤ MOST_QUARTERS }
    requires joint { (blocks : BookOfBlocks) × IsBlockBook books.now.bids books.now.links first last blocks
        × (joint_in books.now blocks first last ≡ Ok joint.now) }
    requires valid { IsValid joint.now.market }
    requires clearing { (budget : ℕ) × IsBudget budget × IsClearing joint.now.market budget clearing }
    ensures { (budget : ℕ) → IsClearing joint.now.market budget clearing
        → IfOk result (λ printed. IsTextOf books.now first last budget joint.now printed.published printed.text) }
{
    let block = joint_block(alloc, books, first, last, joint, clearing)?;
    let text = joint_text(alloc, &block)?;
    Ok(JointText {
        text: Items::of(text),
        published: true,
    })
}

/// Makes the joint market of these quarters, which count from 1, clears it within a budget of 1 to `MOST_NODES` nodes,
/// and gives the text of it. It returns if the clearer does.
pub fn clear_joint<C: Clearer>(
    alloc: Global,
    books: &Books,
    blocks: &BlockBook,
    first: u32,
    last: u32,
    budget: u32,
    clearer: &mut C,
) -> Result<JointText, JointFault>
    // The folder's books, and the book of blocks of these quarters.
    requires accepted { IsAccepted books.now }
    requires book { IsBlockBook books.now.bids books.now.links first last blocks.now }
    requires in_order { first ≤ last }
    requires last { last ≤ MOST_QUARTERS }

    // What clears the market.
    requires budget { IsBudget budget }
    requires ready { C.ready clearer.old }

    // The text, or exactly the first refusal of what can't be one market.
    ensures text { GivesText books.now blocks.now first last budget result }

    // The clearer may clear on.
    ensures ready { C.ready clearer.new }
{
    let joint = joint_market(alloc, books, blocks, first, last)?;
    match clearer.clear(alloc, &joint.market, budget) {
        Cleared::Published(clearing) => {
            match published_text(alloc, books, first, last, &joint, clearing) {
                Ok(text) => {
                    drop(joint);
                    Ok(text)
                }
                Err(Memory) => {
                    drop(joint);
                    Err(JointFault::Memory)
                }
            }
        }
        Cleared::Spent(spent) => {
            let count = spent.items.as_slice().len() as u32;
            drop(spent);
            drop(joint);
            let text = unpublished_text(alloc, first, last, count)?;
            Ok(JointText {
                text: Items::of(text),
                published: false,
            })
        }
        Cleared::Memory => {
            drop(joint);
            Err(JointFault::Memory)
        }
    }
}
