//! The gates of a joint market: one for each block, and one for each other bid that has a gate in its quarter.
ghost use Rattle.std.specs.Prelude.{◌≡◌, ◌<◌, ◌^◌, IfOk, IfSome, length, map};
ghost use Rattle.std.specs.List.{list_any};
ghost use Rattle.mari_blocks.specs.Joint.{gate_info as gate_info_of, gate_place, gates_among as gates_in, is_same_gate, own_gate as own_gate_of};

use crate::blocks::BlockBook;
use crate::choice::block_of;
use mari_links::BidLinks;
use mari_market::GateInfo;
use mari_remain::{Books, group_of, is_gated, parent_of};
use mari_units::Memory;
use std::alloc::Global;

/// A gate of a joint market.
#[derive(Clone, Copy, Drop)]
pub(crate) enum JointGate {
    /// That of a block, by the block's place among the blocks, from 0.
    OfBlock(u32),
    /// A bid's own, by the bid's number, from 0.
    OfBid(u32),
}

impl JointGate {
    /// Whether another gate is the same.
    fn is(self, other: JointGate) -> bool
        ensures { result ≡ is_same_gate self other }
    {
        match (self, other) {
            (JointGate::OfBlock(block), JointGate::OfBlock(other)) => block == other,
            (JointGate::OfBid(bid), JointGate::OfBid(other)) => bid == other,
            _ => false,
        }
    }

    /// Its place among gates.
    pub(crate) fn place_in(self, gates: &[JointGate]) -> Option<u32>
        requires { length gates.now < 2 ^ 32 }
        ensures { result ≡ gate_place gates.now self }
    {
        match position_of(gates, self) {
            Some(place) => Some(place as u32),
            None => None,
        }
    }
}

/// The position of a gate among gates.
fn position_of(gates: &[JointGate], gate: JointGate) -> Option<usize>
    ensures place { result ≡ gate_place gates.now gate }
    ensures within { IfSome result (λ place. place < length gates.now) }
{
    gates.iter().position(|other| gate.is(*other))
}

/// Whether a gate is among gates.
fn is_among(gates: &[JointGate], gate: JointGate) -> bool
    ensures { result ≡ list_any (is_same_gate gate) gates.now }
{
    gates.iter().any(|other| gate.is(*other))
}

/// The gate of a bid, if it has one: its block's, or its own.
pub(crate) fn own_gate(books: &Books, blocks: &BlockBook, bid: u32) -> Option<JointGate>
    ensures { result ≡ own_gate_of books.now blocks.now bid }
{
    match block_of(blocks, bid) {
        Some(block) => Some(JointGate::OfBlock(block)),
        None if is_gated(&books.links, bid) => Some(JointGate::OfBid(bid)),
        None => None,
    }
}

/// The gates of these bids, each once, in order of first appearance.
pub(crate) fn gates_among(
    alloc: Global,
    books: &Books,
    blocks: &BlockBook,
    numbers: &[u32],
) -> Result<Vec<JointGate>, Memory>
    ensures { IfOk result (λ gates. gates.items ≡ gates_in books.now blocks.now numbers.now) }
{
    let mut gates = Vec::new(alloc);
    for bid in numbers {
        if let Some(gate) = own_gate(books, blocks, *bid) {
            if !is_among(&gates, gate) {
                gates.push(gate)?;
            }
        }
    }
    Ok(gates)
}

/// What is known of a gate: a bid's own keeps its group and its parent, that of a block has neither.
fn gate_info(links: &[BidLinks], gates: &[JointGate], gate: JointGate) -> GateInfo
    requires { length gates.now < 2 ^ 32 }
    ensures { result ≡ gate_info_of links.now gates.now gate }
{
    match gate {
        JointGate::OfBlock(_) => GateInfo {
            group: None,
            parent: None,
        },
        JointGate::OfBid(bid) => GateInfo {
            group: group_of(links, bid),
            parent: match parent_of(links, bid) {
                Some(parent) => JointGate::OfBid(parent).place_in(gates),
                None => None,
            },
        },
    }
}

/// What is known of each of these gates.
pub(crate) fn gate_infos(
    alloc: Global,
    links: &[BidLinks],
    gates: &[JointGate],
) -> Result<Vec<GateInfo>, Memory>
    requires { length gates.now < 2 ^ 32 }
    ensures { IfOk result (λ infos. infos.items ≡ map (gate_info_of links.now gates.now) gates.now) }
{
    let mut infos = Vec::new(alloc);
    for gate in gates {
        infos.push(gate_info(links, gates, *gate))?;
    }
    Ok(infos)
}
