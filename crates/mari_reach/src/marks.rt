//! Marks of gates.

ghost use Rattle.std.specs.Prelude.{◌≡◌, ◌==◌, ◌&&◌, ◌||◌, ◌<◌, ◌≤◌, ℕ, IfSome, false, length, true};
ghost use Rattle.std.specs.List.{list_any};
ghost use Rattle.mari_market.specs.Gates.{ParentsEarlier};
ghost use Rattle.mari_market.specs.Prefix.{opens_in};
ghost use Rattle.mari_reach.specs.State.{is_opened, line_of};

use mari_market::GateInfo;
use mari_units::MOST_GATES;
use std::marker::Model;

/// Gates that are marked. Contracts see, for each gate that there may be, whether it is.
#[derive(Drop)]
pub struct Marks {
    marks: [bool; MOST_GATES],
}

impl Model for Marks {
    ghost use Rattle.std.specs.Prelude.{Bool, List};

    ghost Value = { List Bool };

    ghost view = { λ t. t.marks };
}

impl Marks {
    /// No gate marked.
    pub fn none() -> Marks
        ensures { (g : ℕ) → opens_in result g ≡ false }
    {
        Marks {
            marks: [false; MOST_GATES],
        }
    }

    /// Every gate marked.
    pub(crate) fn all() -> Marks
        ensures { (g : ℕ) → g < MOST_GATES → opens_in result g ≡ true }
    {
        Marks {
            marks: [true; MOST_GATES],
        }
    }

    /// Takes all marks away.
    pub(crate) fn clear(&mut self)
        ensures { (g : ℕ) → opens_in self.new g ≡ false }
    {
        self.marks = [false; MOST_GATES];
    }

    /// Marks a gate.
    pub fn mark(&mut self, gate: u32)
        requires { gate < MOST_GATES }
        ensures { (g : ℕ) → opens_in self.new g ≡ (opens_in self.old g || (gate == g)) }
    {
        self.marks[gate as usize] = true;
    }

    /// Marks a gate, if it is to be marked.
    pub(crate) fn mark_if(&mut self, gate: u32, is_marked: bool)
        requires { gate < MOST_GATES }
        ensures { (g : ℕ) → opens_in self.new g ≡ (opens_in self.old g || (is_marked && (gate == g))) }
    {
        if is_marked {
            self.mark(gate);
        }
    }

    /// Whether a gate that there may be is marked.
    pub(crate) fn at(&self, gate: u32) -> bool
        requires { gate < MOST_GATES }
        ensures { result ≡ opens_in self.now gate }
    {
        self.marks[gate as usize]
    }

    /// Whether a gate is marked. One beyond those that there may be isn't.
    pub fn has(&self, gate: u32) -> bool
        ensures { result ≡ opens_in self.now gate }
    {
        (gate as usize) < MOST_GATES && self.marks[gate as usize]
    }

    /// Whether there is a gate and it is marked.
    pub(crate) fn has_some(&self, gate: Option<u32>) -> bool
        requires { IfSome gate (λ g. g < MOST_GATES) }
        ensures { result ≡ is_opened (opens_in self.now) gate }
    {
        match gate {
            None => false,
            Some(gate) => self.at(gate),
        }
    }

    /// Marks a gate and all gates above it.
    pub(crate) fn mark_line(&mut self, gates: &[GateInfo], gate: u32)
        requires few { length gates.now ≤ MOST_GATES }
        requires there { gate < length gates.now }
        requires earlier { ParentsEarlier gates.now }
        ensures { (g : ℕ) → opens_in self.new g ≡ (opens_in self.old g || list_any (λ h. h == g) (line_of gates.now gate)) }
    {
        let mut next = Some(gate);
        for step in 0..gates.len() {
            let Some(at) = next else {
                return;
            };
            self.mark(at);
            next = gates[at as usize].parent;
        }
    }
}
