//! The providers of a run's bids.

ghost use Rattle.std.specs.Prelude.{◌≡◌, ◌==◌, ◌++◌, ◌∷◌, [], IfOk, OnOk};
ghost use Rattle.std.specs.List.{list_any};
ghost use Rattle.mari_progress.specs.Money.{AreMarked, providers_among, with_number};

use mari_bids::Bid;
use mari_remain::bid_of;
use mari_units::Memory;
use std::alloc::Global;

/// The providers listed so far, each once, and marks: at the place of each of them, and at no other.
#[derive(Drop)]
struct Listed {
    places: Vec<u32>,
    marks: Vec<bool>,
}

impl Listed {
    /// None yet.
    fn none(alloc: Global) -> Listed
        ensures places { result.places.items ≡ [] }
        ensures marked { AreMarked result.places.items result.marks.items }
    {
        Listed {
            places: Vec::new(alloc),
            marks: Vec::new(alloc),
        }
    }

    /// Whether a provider is listed.
    fn has(&self, place: u32) -> bool
        requires { AreMarked self.now.places.items self.now.marks.items }
        ensures { result ≡ list_any (λ m. m == place) self.now.places.items }
    {
        self.marks.get(place as usize).copied().unwrap_or(false)
    }

    /// Lists a provider that isn't listed yet, after the others. A market has few providers, so that this is no part of the
    /// loop over its bids.
    #[inline(never)]
    fn push(&mut self, place: u32) -> Result<(), Memory>
        requires { AreMarked self.old.places.items self.old.marks.items }
        ensures places { OnOk result (self.new.places.items ≡ self.old.places.items ++ place ∷ []) }
        ensures marked { OnOk result (AreMarked self.new.places.items self.new.marks.items) }
    {
        let place_of_mark = place as usize;
        if place_of_mark >= self.marks.len() {
            self.marks.resize(place_of_mark + 1, false)?;
        }
        self.places.push(place)?;
        self.marks[place_of_mark] = true;
        Ok(())
    }

    /// Lists a provider after the others, unless it is listed.
    fn add(&mut self, place: u32) -> Result<(), Memory>
        requires { AreMarked self.old.places.items self.old.marks.items }
        ensures places { OnOk result (self.new.places.items ≡ with_number self.old.places.items place) }
        ensures marked { OnOk result (AreMarked self.new.places.items self.new.marks.items) }
    {
        if self.has(place) {
            return Ok(());
        }
        self.push(place)
    }
}

/// The providers of these bids, each once, by the first bid of each. The bids are given by their numbers, the
/// providers by their places in the book of bids.
pub fn providers_of(alloc: Global, bids: &[Bid], numbers: &[u32]) -> Result<Vec<u32>, Memory>
    ensures { IfOk result (λ places. places.items ≡ providers_among bids.now numbers.now) }
{
    let mut listed = Listed::none(alloc);
    for number in numbers {
        listed.add(bid_of(bids, *number).provider)?;
    }
    Ok(listed.places)
}
