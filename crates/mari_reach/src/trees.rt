//! The test of a tree of states.

ghost use Rattle.std.specs.Prelude.{◌≡◌, ◌↔◌, ℕ, ℤ, pos, ◌-ℤ◌, ◌≤ℤ◌, length, IfOk, Ok};
ghost use Rattle.mari_market.specs.declared.activation.Activation.{Activation};
ghost use Rattle.mari_market.specs.Activation.{gate_word_of, welfare_of};
ghost use Rattle.mari_market.specs.First.{ComesBefore, IsFirst};
ghost use Rattle.mari_market.specs.Market.{IsValid};
ghost use Rattle.mari_market.specs.Optimal.{IsAdmissible, IsOptimal};
ghost use Rattle.mari_market.specs.Prefix.{word_of};
ghost use Rattle.mari_reach.specs.Leaf.{ReachLeafHolds};
ghost use Rattle.mari_reach.specs.Places.{IsReachVerdict};
ghost use Rattle.mari_reach.specs.Tree.{HasShape, ReachHolds};

use crate::decisions::ReachItem;
use crate::states::State;
use crate::survey::Survey;
use crate::walk::Walk;
use mari_market::{Market, Prefix};
use mari_proofs::TreeVerdict;
use mari_units::{Memory, Quarters};
use std::alloc::Global;

/// Walks through a tree item by item, up to its end or to where its shape fails; after the first leaf that doesn't hold
/// it looks at the shape alone.
fn walk(
    alloc: Global,
    market: &Market,
    tree: &[ReachItem],
    cutoff: Quarters,
    word: &Prefix,
) -> Result<TreeVerdict, Memory>
    requires market { IsValid market.now }
    requires full { word.now.length ≡ length market.now.gates }
    ensures { IfOk result (λ v. IsReachVerdict market.now (ReachLeafHolds market.now cutoff.0 (word_of word.now)) tree.now v) }
{
    let survey = Survey::of(alloc, market, tree.len())?;
    let mut walk = Walk::start(alloc);
    let mut state = State::whole();
    let mut false_leaf = None;
    for (place, item) in tree.iter().enumerate() {
        survey.set(&mut state, market, walk.path.as_slice());
        false_leaf = walk.first_false(
            market, &survey, &state, false_leaf, place, item, cutoff, word,
        );
        if !walk.take(market, &state, item)? {
            return Ok(TreeVerdict::BadShape(place));
        }
    }
    if walk.is_left {
        return Ok(TreeVerdict::BadShape(tree.len()));
    }
    match false_leaf {
        None => Ok(TreeVerdict::Holds),
        Some(place) => Ok(TreeVerdict::BadLeaf(place)),
    }
}

/// Whether a tree of states holds for the market at a cutoff, in quarter-cents, for a gate word.
///
/// The gate word is a prefix that decides every gate. A tree that holds at the welfare of an admissible activation for
/// its gate word shows that it is the first activation. Else it is said whether its shape fails anywhere, with the first
/// place at which it does, and else which is the first leaf that doesn't hold. Places count from 0; the shape fails at an
/// item that is left over, at a branch that may not stand there, and, where the tree ends too early, at the place after
/// its last item. Where memory runs out, nothing is said of the tree.
pub fn check_tree(
    alloc: Global,
    market: &Market,
    tree: &[ReachItem],
    cutoff: Quarters,
    word: &Prefix,
) -> Result<TreeVerdict, Memory>
    requires market { IsValid market.now }
    requires full { word.now.length ≡ length market.now.gates }

    // The verdict; and when it says that the tree holds, and that its shape fails.
    ensures verdict { IfOk result (λ v. IsReachVerdict market.now (ReachLeafHolds market.now cutoff.0 (word_of word.now)) tree.now v) }
    ensures holds { IfOk result (λ v. (v ≡ TreeVerdict.Holds) ↔ ReachHolds market.now cutoff.0 (word_of word.now) tree.now) }
    ensures shape { IfOk result (λ v. ((place : ℕ) → v ≡ TreeVerdict.BadShape place → ⊥) ↔ HasShape market.now tree.now) }

    // A tree that holds bounds every admissible welfare, so that an activation which reaches the cutoff is optimal.
    ensures bounds { result ≡ Ok TreeVerdict.Holds → (a : Activation) → IsAdmissible market.now a → welfare_of market.now a ≤ℤ cutoff.0 }
    ensures optimal { result ≡ Ok TreeVerdict.Holds → (a : Activation) → IsAdmissible market.now a
        → welfare_of market.now a ≡ cutoff.0 → IsOptimal market.now a }

    // Gate words that come before the word have less welfare, so an activation of the word which reaches the cutoff is
    // the first.
    ensures earlier { result ≡ Ok TreeVerdict.Holds → (a : Activation) → IsAdmissible market.now a
        → ComesBefore (gate_word_of market.now a) (word_of word.now) → welfare_of market.now a ≤ℤ (cutoff.0 -ℤ pos 1) }
    ensures first { result ≡ Ok TreeVerdict.Holds → (a : Activation) → IsAdmissible market.now a
        → welfare_of market.now a ≡ cutoff.0 → gate_word_of market.now a ≡ word_of word.now → IsFirst market.now a }
{
    walk(alloc, market, tree, cutoff, word)
}
