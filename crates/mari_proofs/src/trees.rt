//! The test of a certificate tree.

ghost use Rattle.std.specs.Prelude.{◌≡◌, ◌↔◌, ℤ, pos, ◌-ℤ◌, ◌≤ℤ◌, length, IfSome};
ghost use Rattle.mari_market.specs.declared.activation.Activation.{Activation};
ghost use Rattle.mari_market.specs.Activation.{gate_word_of, welfare_of};
ghost use Rattle.mari_market.specs.First.{ComesBefore, IsFirst};
ghost use Rattle.mari_market.specs.Market.{IsValid};
ghost use Rattle.mari_market.specs.Optimal.{IsAdmissible, IsOptimal};
ghost use Rattle.mari_market.specs.Prefix.{word_of, IsFeasiblePrefix};
ghost use Rattle.mari_market.specs.Tree.{LeafHoldsFor, TreeHoldsFor};
ghost use Rattle.mari_proofs.specs.Places.{IsTreeVerdict};
ghost use Rattle.mari_proofs.specs.Steps.{IsStep};
ghost use Rattle.mari_proofs.specs.Tables.{IsTableOf};

use crate::leaves::check_leaf_for;
use crate::table::DualTable;
use mari_gates::{child_of, empty_prefix, next_after};
use mari_market::{Market, Prefix, TreeItem};
use mari_units::Quarters;

/// Whether a tree holds, or the first place at which it doesn't.
///
/// Places count from 0. The shape fails at an item that is left over, at a branch of a prefix that decides every gate,
/// and, where the tree ends too early, at the place after its last item.
#[derive(Clone, Copy, Debug, Drop, PartialEq, Eq)]
pub enum TreeVerdict {
    /// It holds.
    Holds,
    /// Its shape fails at this place.
    BadShape(usize),
    /// The leaf at this place doesn't hold.
    BadLeaf(usize),
}

/// What one item does to a walk: the next prefix or the end of the tree, or a fault.
enum TreeStep {
    /// The next prefix, or none at the end of the tree.
    On(Option<Prefix>),
    /// The item is a branch where no gate is left to decide.
    BadShape,
    /// The item is a leaf that doesn't hold.
    BadLeaf,
}

/// Takes one item at a prefix.
fn take_item(
    market: &Market,
    table: Option<&DualTable>,
    prefix: &Prefix,
    item: &TreeItem,
    cutoff: Quarters,
    word: &Prefix,
) -> TreeStep
    requires market { IsValid market.now }
    requires table { IfSome table (λ t. IsTableOf market.now t.now) }
    requires prefix { IsFeasiblePrefix market.now prefix.now }
    requires word { IsFeasiblePrefix market.now word.now }
    ensures { IsStep market.now (LeafHoldsFor market.now cutoff.0 (word_of word.now)) prefix.now item.now result }
{
    match item {
        TreeItem::Branch if prefix.length as usize >= market.gates.as_slice().len() =>
            TreeStep::BadShape,
        TreeItem::Branch => TreeStep::On(Some(child_of(prefix, false))),
        TreeItem::Leaf(leaf) if check_leaf_for(market, table, prefix, leaf, cutoff, word) => {
            TreeStep::On(next_after(market, prefix))
        }
        TreeItem::Leaf(_) => TreeStep::BadLeaf,
    }
}

/// Walks through a tree item by item, up to its end or its first fault.
fn walk(
    market: &Market,
    table: Option<&DualTable>,
    tree: &[TreeItem],
    cutoff: Quarters,
    word: &Prefix,
) -> TreeVerdict
    requires market { IsValid market.now }
    requires table { IfSome table (λ t. IsTableOf market.now t.now) }
    requires word { IsFeasiblePrefix market.now word.now }
    ensures { IsTreeVerdict market.now (LeafHoldsFor market.now cutoff.0 (word_of word.now)) tree.now result }
{
    let mut next = Some(empty_prefix());
    for (place, item) in tree.iter().enumerate() {
        let Some(prefix) = next else {
            return TreeVerdict::BadShape(place);
        };
        match take_item(market, table, &prefix, item, cutoff, word) {
            TreeStep::On(following) => next = following,
            TreeStep::BadShape => return TreeVerdict::BadShape(place),
            TreeStep::BadLeaf => return TreeVerdict::BadLeaf(place),
        }
    }
    match next {
        None => TreeVerdict::Holds,
        Some(_) => TreeVerdict::BadShape(tree.len()),
    }
}

/// Whether a tree holds for the market at a cutoff, in quarter-cents, for a gate word; else the first place at which
/// it doesn't.
///
/// The gate word is a feasible prefix that decides every gate. The leaves that are early for it are to hold even at
/// the cutoff less 1, so a tree that holds at the welfare of an admissible activation for its gate word shows that it
/// is the first activation. The word that closes every gate has no early leaf.
pub fn check_tree(
    market: &Market,
    tree: &[TreeItem],
    cutoff: Quarters,
    word: &Prefix,
) -> TreeVerdict
    requires market { IsValid market.now }
    requires word { IsFeasiblePrefix market.now word.now }
    requires full { word.now.length ≡ length market.now.gates }
    ensures verdict { IsTreeVerdict market.now (LeafHoldsFor market.now cutoff.0 (word_of word.now)) tree.now result }
    ensures holds { (result ≡ TreeVerdict.Holds) ↔ TreeHoldsFor market.now cutoff.0 (word_of word.now) tree.now }

    // A tree that holds bounds every admissible welfare, so that an activation which reaches the cutoff is optimal.
    ensures bounds { result ≡ TreeVerdict.Holds → (a : Activation) → IsAdmissible market.now a → welfare_of market.now a ≤ℤ cutoff.0 }
    ensures optimal { result ≡ TreeVerdict.Holds → (a : Activation) → IsAdmissible market.now a → welfare_of market.now a ≡ cutoff.0 → IsOptimal market.now a }

    // Gate words that come before the word have less welfare, so an activation of the word which reaches the cutoff is
    // the first.
    ensures earlier { result ≡ TreeVerdict.Holds → (a : Activation) → IsAdmissible market.now a → ComesBefore (gate_word_of market.now a) (word_of word.now)
        → welfare_of market.now a ≤ℤ (cutoff.0 -ℤ pos 1) }
    ensures first { result ≡ TreeVerdict.Holds → (a : Activation)
        → IsAdmissible market.now a → welfare_of market.now a ≡ cutoff.0 → gate_word_of market.now a ≡ word_of word.now → IsFirst market.now a }
{
    walk(market, None, tree, cutoff, word)
}

/// Whether a tree holds for the market at a cutoff for a gate word, as `check_tree` says, by a table of the market.
pub fn check_tree_by(
    market: &Market,
    table: &DualTable,
    tree: &[TreeItem],
    cutoff: Quarters,
    word: &Prefix,
) -> TreeVerdict
    requires market { IsValid market.now }
    requires table { IsTableOf market.now table.now }
    requires word { IsFeasiblePrefix market.now word.now }
    requires full { word.now.length ≡ length market.now.gates }
    ensures verdict { IsTreeVerdict market.now (LeafHoldsFor market.now cutoff.0 (word_of word.now)) tree.now result }
    ensures holds { (result ≡ TreeVerdict.Holds) ↔ TreeHoldsFor market.now cutoff.0 (word_of word.now) tree.now }

    // A tree that holds bounds every admissible welfare, so that an activation which reaches the cutoff is optimal.
    ensures bounds { result ≡ TreeVerdict.Holds → (a : Activation) → IsAdmissible market.now a → welfare_of market.now a ≤ℤ cutoff.0 }
    ensures optimal { result ≡ TreeVerdict.Holds → (a : Activation) → IsAdmissible market.now a → welfare_of market.now a ≡ cutoff.0 → IsOptimal market.now a }

    // Gate words that come before the word have less welfare, so an activation of the word which reaches the cutoff is
    // the first.
    ensures earlier { result ≡ TreeVerdict.Holds → (a : Activation) → IsAdmissible market.now a → ComesBefore (gate_word_of market.now a) (word_of word.now)
        → welfare_of market.now a ≤ℤ (cutoff.0 -ℤ pos 1) }
    ensures first { result ≡ TreeVerdict.Holds → (a : Activation)
        → IsAdmissible market.now a → welfare_of market.now a ≡ cutoff.0 → gate_word_of market.now a ≡ word_of word.now → IsFirst market.now a }
{
    walk(market, Some(table), tree, cutoff, word)
}
