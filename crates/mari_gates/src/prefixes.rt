//! Which prefixes keep the rules of parents and groups, and the prefixes one gate longer or shorter.

ghost use Rattle.std.specs.Prelude.{◌≡◌, ◌≢◌, ℕ, ◌<◌, ◌≤◌, ◌+◌, ◌-◌, ◌↔◌, IsTrue, true, false, [], ◌∷◌, ◌++◌, length, if◌then◌else◌};
ghost use Rattle.std.specs.Int.{bit_at};
ghost use Rattle.mari_market.specs.Market.{IsValid};
ghost use Rattle.mari_market.specs.Prefix.{bit_of, word_of, may_open, group_taken, is_taken, parent_opens, children, IsFeasibleWord, IsFeasiblePrefix, IsCleared};
ghost use Rattle.mari_gates.specs.Prefixes.{decisions};
ghost use Rattle.mari_market.specs.Gates.{ParentsEarlier};

use mari_market::{GateInfo, Market, Prefix};
use mari_units::MOST_GATES;

/// Whether the gate's bit is 1, so that the prefix, where it decides the gate, decides it as open.
pub fn opens(prefix: &Prefix, gate: u32) -> bool
    requires { gate < MOST_GATES }
    ensures { result ≡ bit_of prefix.now gate }
{
    (prefix.bits[(gate / 64) as usize] >> (gate % 64)) & 1 == 1
}

/// Whether one of the first `decided` gates is of this group and open.
pub(crate) fn is_group_taken(
    gates: &[GateInfo],
    prefix: &Prefix,
    decided: u32,
    group: Option<u32>,
) -> bool
    requires gates { decided ≤ length gates.now }
    requires few { decided ≤ MOST_GATES }
    ensures { result ≡ is_taken group gates.now (decisions prefix.now decided) }
{
    match group {
        None => false,
        Some(group) => takes_group(gates, prefix, decided, group),
    }
}

/// Whether one of the first `decided` gates is of the group and open.
fn takes_group(gates: &[GateInfo], prefix: &Prefix, decided: u32, group: u32) -> bool
    requires gates { decided ≤ length gates.now }
    requires few { decided ≤ MOST_GATES }
    ensures { result ≡ group_taken group gates.now (decisions prefix.now decided) }
{
    for gate in 0..decided {
        if opens(prefix, gate) && gates[gate as usize].group == Some(group) {
            return true;
        }
    }
    false
}

/// Whether the parent, if there is one, is one of the first `decided` gates and open.
fn is_parent_open(prefix: &Prefix, decided: u32, parent: Option<u32>) -> bool
    requires { decided ≤ MOST_GATES }
    ensures { result ≡ parent_opens (decisions prefix.now decided) parent }
{
    match parent {
        None => true,
        Some(parent) => parent < decided && opens(prefix, parent),
    }
}

/// Whether the gate may be opened after the gates before it: its parent is open, and no open gate shares its group.
fn may_open_next(gates: &[GateInfo], prefix: &Prefix, gate: u32) -> bool
    requires gate { gate < length gates.now }
    requires few { gate < MOST_GATES }
    ensures { result ≡ may_open gates.now (decisions prefix.now gate) gate }
{
    let info = gates[gate as usize];
    is_parent_open(prefix, gate, info.parent) && !is_group_taken(gates, prefix, gate, info.group)
}

/// Whether the open gates of the prefix keep the rules of parents and groups.
fn keeps_rules(gates: &[GateInfo], prefix: &Prefix) -> bool
    requires few { length gates.now ≤ MOST_GATES }
    requires decided { prefix.now.length ≤ length gates.now }
    requires earlier { ParentsEarlier gates.now }
    ensures { IsTrue result ↔ IsFeasibleWord gates.now (word_of prefix.now) }
{
    for gate in 0..prefix.length {
        if opens(prefix, gate) && !may_open_next(gates, prefix, gate) {
            return false;
        }
    }
    true
}

/// Whether no bit past the prefix is 1.
fn is_cleared(prefix: &Prefix) -> bool
    ensures { IsTrue result ↔ IsCleared prefix.now }
{
    for gate in prefix.length..MOST_GATES as u32 {
        if opens(prefix, gate) {
            return false;
        }
    }
    true
}

/// Whether the prefix is feasible: it decides gates that are there, each gate that it opens has an open parent or
/// none, no two gates that it opens share a group, and its unused bits are 0.
pub fn prefix_feasible(market: &Market, prefix: &Prefix) -> bool
    requires { IsValid market.now }
    ensures { IsTrue result ↔ IsFeasiblePrefix market.now prefix.now }
{
    let gates = market.gates.as_slice();
    prefix.length as usize <= gates.len() && keeps_rules(gates, prefix) && is_cleared(prefix)
}

/// Whether the next gate may be open. It may always be closed.
pub fn may_branch_up(market: &Market, prefix: &Prefix) -> bool
    requires market { IsValid market.now }
    requires prefix { IsFeasiblePrefix market.now prefix.now }
    requires undecided { prefix.now.length < length market.now.gates }
    ensures may_open { IsTrue result ↔ IsFeasibleWord market.now.gates (word_of prefix.now ++ true ∷ []) }
    ensures may_close { IsFeasibleWord market.now.gates (word_of prefix.now ++ false ∷ []) }
    ensures children { children market.now.gates (word_of prefix.now)
        ≡ (word_of prefix.now ++ false ∷ []) ∷ (if result then (word_of prefix.now ++ true ∷ []) ∷ [] else []) }
{
    may_open_next(market.gates.as_slice(), prefix, prefix.length)
}

/// The number with one bit set or cleared.
fn with_bit(word: u64, place: u32, set: bool) -> u64
    requires { place < 64 }
    ensures same { bit_at result place ≡ (if set then 1 else 0) }
    ensures others { (i : ℕ) → i < 64 → i ≢ place → bit_at result i ≡ bit_at word i }
{
    if set {
        word | (1 << place)
    } else {
        word & !(1 << place)
    }
}

/// Writes the bit of one gate.
pub(crate) fn set_bit(prefix: &mut Prefix, gate: u32, opened: bool)
    requires { gate < MOST_GATES }
    ensures same { bit_of prefix.new gate ≡ opened }
    ensures others { (g : ℕ) → g ≢ gate → bit_of prefix.new g ≡ bit_of prefix.old g }
    ensures length { prefix.new.length ≡ prefix.old.length }
{
    let place = (gate / 64) as usize;
    prefix.bits[place] = with_bit(prefix.bits[place], gate % 64, opened);
}

/// The prefix that decides no gate.
pub fn empty_prefix() -> Prefix
    ensures word { word_of result ≡ [] }
    ensures cleared { IsCleared result }
{
    Prefix {
        length: 0,
        bits: [0; 8],
    }
}

/// The prefix that decides one gate more.
pub fn child_of(prefix: &Prefix, opened: bool) -> Prefix
    requires room { prefix.now.length < MOST_GATES }
    requires cleared { IsCleared prefix.now }
    ensures length { result.length ≡ prefix.now.length + 1 }
    ensures word { word_of result ≡ word_of prefix.now ++ opened ∷ [] }
    ensures cleared { IsCleared result }
{
    let mut child = *prefix;
    set_bit(&mut child, prefix.length, opened);
    child.length += 1;
    child
}

/// The prefix without its last decision.
/// It serves `next_after` alone.
pub(crate) fn without_last(prefix: &Prefix) -> Prefix
    requires decided { 0 < prefix.now.length }
    requires few { prefix.now.length ≤ MOST_GATES }
    requires cleared { IsCleared prefix.now }
    ensures length { result.length + 1 ≡ prefix.now.length }
    ensures word { word_of prefix.now ≡ word_of result ++ bit_of prefix.now result.length ∷ [] }
    ensures cleared { IsCleared result }
{
    let mut parent = *prefix;
    parent.length -= 1;
    set_bit(&mut parent, prefix.length - 1, false);
    parent
}
