//! The groups of the lines so far.
ghost use Rattle.std.specs.Prelude.{◌≡◌, ◌<◌, ◌++◌, ◌∷◌, [], true, ℕ, List, length, IfOk, OnOk};
ghost use Rattle.mari_units.specs.Names.{is_name};
ghost use Rattle.mari_rows.specs.Names.{place_in};
ghost use Rattle.mari_bids.specs.declared.bids.BidBook.{BidBook as Bids};
ghost use Rattle.mari_links.specs.Links.{groups_of, quarter_of as quarter_in, quarter_of_group, Member};

use mari_rows::NameIndex;
use mari_units::Memory;
use std::alloc::Global;

/// The groups in order of first appearance, and the quarter of the first member of each.
#[derive(Drop)]
pub struct Groups {
    names: NameIndex,
    quarters: Vec<u32>,
}

impl Groups {
    ghost use Rattle.mari_links.specs.SoFar.{HoldsGroups};

    /// No groups.
    pub fn new(alloc: Global) -> Self
        ensures { (bids : Bids) → HoldsGroups bids [] result }
    {
        Groups {
            names: NameIndex::new(alloc),
            quarters: Vec::new(alloc),
        }
    }

    /// The quarter of a group's first member.
    pub fn quarter(&self, name: &[u8]) -> Option<u32>
        ensures { (bids : Bids) (members : List Member) → HoldsGroups bids members self.now → result ≡ quarter_of_group bids members name.now }
    {
        match self.names.find(name) {
            Some(group) => self.quarters.as_slice().get(group as usize).copied(),
            None => None,
        }
    }

    /// The number of the group of one more member, which is of this quarter.
    pub fn add(&mut self, alloc: Global, name: &[u8], quarter: u32) -> Result<u32, Memory>
        requires room { length self.old.names < u32.MAX }
        requires name { is_name name.now ≡ true }
        ensures place { (bids : Bids) (members : List Member) (bid : ℕ) → HoldsGroups bids members self.old
            → IfOk result (λ group. group ≡ place_in (groups_of (members ++ record { group = name.now; bid = bid } ∷ [])) name.now) }
        ensures groups { (bids : Bids) (members : List Member) (bid : ℕ) → HoldsGroups bids members self.old → quarter ≡ quarter_in bids bid
            → OnOk result (HoldsGroups bids (members ++ record { group = name.now; bid = bid } ∷ []) self.new) }
    {
        if let Some(group) = self.names.find(name) {
            return Ok(group);
        }
        self.quarters.push(quarter)?;
        self.names.find_or_add(alloc, name)
    }
}
