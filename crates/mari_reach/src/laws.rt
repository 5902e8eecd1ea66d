//! Laws of states, and of trees of them.
//!
//! No call here does anything: its contract is the law.

ghost use Rattle.std.specs.Prelude.{◌≡◌, ◌⊎◌, ◌↔◌, ◌-ℤ◌, ◌≤ℤ◌, Bool, true, false, ℕ, ℤ, pos, List};
ghost use Rattle.mari_units.specs.declared.numbers.Cents.{Cents};
ghost use Rattle.mari_market.specs.declared.activation.Activation.{Activation};
ghost use Rattle.mari_market.specs.declared.certificate.Cut.{Cut};
ghost use Rattle.mari_market.specs.Activation.{gate_word_of, is_open, welfare_of};
ghost use Rattle.mari_market.specs.Bounds.GateState.{Free};
ghost use Rattle.mari_market.specs.Cut.{IsCutWithin};
ghost use Rattle.mari_market.specs.First.{ComesBefore, IsFirst};
ghost use Rattle.mari_market.specs.Market.{IsValid};
ghost use Rattle.mari_market.specs.Optimal.{IsAdmissible, IsConsistent, IsFeasible, IsOptimal};
ghost use Rattle.mari_market.specs.Price.{price_at};
ghost use Rattle.mari_market.specs.Relaxation.{IsWithinSpans};
ghost use Rattle.mari_reach.specs.declared.decisions.Decision.{Decision};
ghost use Rattle.mari_reach.specs.declared.decisions.ReachItem.{ReachItem};
ghost use Rattle.mari_reach.specs.Leaf.{IsBoundFor, dual_of, gain_of, is_needed};
ghost use Rattle.mari_reach.specs.State.{IsReached, IsVoid, bounds_in, flows_in, high_of, low_of, opens, shuts, state_at};
ghost use Rattle.mari_reach.specs.Tree.{ReachHolds};
ghost use Rattle.mari_reach.specs.Twins.{AreTwins, IsAhead, IsNoWorse, KeepsRank, RanksBefore, moved, order_at, outranks};

use mari_market::Market;

/// What a state says of each activation that it reaches, with consistent prices.
pub fn reached(market: &Market)
    requires { IsValid market.now }

    // Its gates.
    ensures opened { (ds : List Decision) (a : Activation) (ps : List Cents) → IsReached market.now ds a ps → (g : ℕ)
        → opens market.now ds g ≡ true → is_open market.now a g ≡ true }
    ensures shut { (ds : List Decision) (a : Activation) (ps : List Cents) → IsReached market.now ds a ps → (g : ℕ)
        → shuts market.now ds g ≡ true → is_open market.now a g ≡ false }

    // Its prices, its quantities and its flows.
    ensures low { (ds : List Decision) (a : Activation) (ps : List Cents) → IsReached market.now ds a ps → (z : ℕ) → low_of market.now ds z ≤ℤ price_at ps z }
    ensures high { (ds : List Decision) (a : Activation) (ps : List Cents) → IsReached market.now ds a ps → (z : ℕ) → price_at ps z ≤ℤ high_of market.now ds z }
    ensures bounds { (ds : List Decision) (a : Activation) (ps : List Cents) → IsReached market.now ds a ps
        → IsWithinSpans (bounds_in market.now ds) (flows_in market.now ds) market.now a }

    // A void state has none; nor has one at whose bounds a cut holds; and none is better than a dual value.
    ensures void { (ds : List Decision) (a : Activation) (ps : List Cents) → IsReached market.now ds a ps → IsVoid market.now ds → ⊥ }
    ensures cut { (ds : List Decision) (a : Activation) (ps : List Cents) (cut : Cut) → IsReached market.now ds a ps
        → IsCutWithin (bounds_in market.now ds) (flows_in market.now ds) market.now cut → ⊥ }
    ensures dual { (ds : List Decision) (a : Activation) (ps : List Cents) (potentials : List Cents)
        → IsReached market.now ds a ps → welfare_of market.now a ≤ℤ dual_of market.now ds potentials }
{}

/// Where a bound holds in a state for a gate word, what the state reaches and comes before that word is worse than the
/// cutoff.
pub fn early(market: &Market)
    requires { IsValid market.now }
    ensures { (w : ℤ) (word : List Bool) (ds : List Decision) (potentials : List Cents) (a : Activation) (ps : List Cents)
        → IsBoundFor market.now w word ds potentials → IsReached market.now ds a ps
        → ComesBefore (gate_word_of market.now a) word → welfare_of market.now a ≤ℤ (w -ℤ pos 1) }
{}

/// What a tree shows that holds at a cutoff for a gate word.
pub fn by_tree(market: &Market)
    requires { IsValid market.now }

    // Nothing is better than the cutoff, so what reaches it is optimal.
    ensures bounds { (w : ℤ) (word : List Bool) (items : List ReachItem) (a : Activation) → ReachHolds market.now w word items
        → IsAdmissible market.now a → welfare_of market.now a ≤ℤ w }
    ensures optimal { (w : ℤ) (word : List Bool) (items : List ReachItem) (a : Activation) → ReachHolds market.now w word items
        → IsAdmissible market.now a → welfare_of market.now a ≡ w → IsOptimal market.now a }

    // What comes before the word is worse, so what reaches the cutoff by the word is the first.
    ensures earlier { (w : ℤ) (word : List Bool) (items : List ReachItem) (a : Activation) → ReachHolds market.now w word items
        → IsAdmissible market.now a → ComesBefore (gate_word_of market.now a) word → welfare_of market.now a ≤ℤ (w -ℤ pos 1) }
    ensures first { (w : ℤ) (word : List Bool) (items : List ReachItem) (a : Activation) → ReachHolds market.now w word items
        → IsAdmissible market.now a → welfare_of market.now a ≡ w → gate_word_of market.now a ≡ word → IsFirst market.now a }
{}

/// What twins show: which they are, what a state opens and closes with them, and that an activation that opens a gate and
/// closes a twin that ranks before it isn't the first.
pub fn twins(market: &Market)
    requires { IsValid market.now }

    // A gate outranks another exactly where they are twins, each of one order at some place, and it ranks before the other.
    ensures outranks { (g h : ℕ) → (outranks market.now g h ≡ true)
        ↔ ((i : ℕ) × ((j : ℕ) × (AreTwins market.now g h i j × RanksBefore (order_at market.now i) g (order_at market.now j) h))) }

    // With a gate a state opens those that outrank it, and closes those that it outranks.
    ensures opened { (ds : List Decision) (g h : ℕ) → outranks market.now g h ≡ true → opens market.now ds h ≡ true → opens market.now ds g ≡ true }
    ensures shut { (ds : List Decision) (g h : ℕ) → outranks market.now g h ≡ true → shuts market.now ds g ≡ true → shuts market.now ds h ≡ true }

    // With the quantity of the one moved to the other the same prices are consistent, and the welfare is greater, or the same
    // with an earlier word.
    ensures exchanged { (a : Activation) (ps : List Cents) (g h i j : ℕ) → AreTwins market.now g h i j
        → RanksBefore (order_at market.now i) g (order_at market.now j) h
        → is_open market.now a h ≡ true → is_open market.now a g ≡ false → IsFeasible market.now a → IsConsistent market.now a ps
        → IsFeasible market.now (moved a i j) × (IsConsistent market.now (moved a i j) ps × IsAhead market.now (moved a i j) a) }
    ensures first { (a : Activation) (g h i j : ℕ) → AreTwins market.now g h i j
        → RanksBefore (order_at market.now i) g (order_at market.now j) h → is_open market.now a h ≡ true
        → is_open market.now a g ≡ false → IsFirst market.now a → ⊥ }

    // So each activation has one with the same prices that keeps the rank of twins, and is the same or ahead of it.
    ensures kept { (a : Activation) (ps : List Cents) → IsFeasible market.now a → IsConsistent market.now a ps
        → (b : Activation) × (IsFeasible market.now b × (IsConsistent market.now b ps
        × (KeepsRank market.now (is_open market.now b) × IsNoWorse market.now b a))) }
{}

/// Where the dual value is the cutoff, the gates that are needed are those that the state opens, and the free ones without
/// whose gain the dual value is below the cutoff.
pub fn needed(market: &Market)
    ensures { (w : ℤ) (ds : List Decision) (potentials : List Cents) (g : ℕ) → dual_of market.now ds potentials ≡ w
        → (is_needed market.now ds potentials g ≡ true)
        ↔ ((opens market.now ds g ≡ true) ⊎ ((state_at market.now ds g ≡ Free)
        × ((dual_of market.now ds potentials -ℤ gain_of (bounds_in market.now ds) market.now potentials g) ≤ℤ (w -ℤ pos 1)))) }
{}
