//! The shared incumbent and its seats.

ghost use Rattle.std.specs.Prelude.{◌≡◌, ◌+◌, ◌-◌, ◌<◌, ◌≤◌, max, IfOk};
ghost use Rattle.mari_incumbent.specs.Incumbent.{seat_view};

use crate::rule::{Both, Law, Look, Note, Offer, OnePart, View};
use atomic_table::{Seat as Place, Table};
use mari_units::Memory;
use std::alloc::Global;
use std::marker::Model;

/// The shared incumbent: a welfare in quarter-cents. Contracts see which incumbent it is, its first value, and the
/// parts of all its seats.
#[derive(Drop)]
pub struct Incumbent {
    table: Table<(), View, (u64, u64), Law, Global>,
    first: u64,
}

impl Model for Incumbent {
    ghost use Rattle.std.specs.Prelude.{◌≡◌};
    ghost use Rattle.mari_incumbent.specs.Incumbent.{IncumbentId};

    ghost Value = { IncumbentId };

    ghost view = { λ i. record { table = i.table.shared.table_id; first = i.table.shared.key.0; all = i.table.shared.key.1 } };

    ghost invariant = { λ i. (i.table.shared.table_id.words ≡ 1) × (i.table.shared.table_id.slots ≡ 0) × (i.first ≡ i.table.shared.key.0) };
}

/// A seat of an incumbent. Contracts see its incumbent, the greatest number that it saw, the greatest that it offered,
/// and its parts.
#[derive(Drop)]
pub struct Seat {
    place: Place<(), View>,
    seen: u64,
    offered: u64,
}

impl Model for Seat {
    ghost use Rattle.std.specs.Prelude.{◌≡◌, ◌<◌, ◌≤◌, []};
    ghost use Rattle.mari_incumbent.specs.Incumbent.{SeatView};
    ghost use Rattle.mari_incumbent.specs.Rule.{view_of};

    ghost Value = { SeatView };

    ghost view = { λ s. record {
      incumbent = record { table = s.place.table_id; first = s.place.me.0.first; all = s.place.me.0.all };
      seen = s.seen;
      offered = s.offered;
      parts = s.place.me.0.parts;
    } };

    ghost invariant = { λ s. (s.place.me ≡ (view_of s.place.me.0.first s.place.me.0.all s.seen s.offered s.place.me.0.parts, [])) × (0 < s.place.me.0.parts)
        × (s.place.me.0.first ≤ s.offered) × (s.offered ≤ s.seen) };
}

impl Seat {
    /// The greatest number that it saw.
    pub fn seen(&self) -> u64
        ensures seen { result ≡ self.now.seen }
        ensures at_least_offered { self.now.offered ≤ result }
        ensures parts { 1 ≤ self.now.parts }
    {
        self.seen
    }

    /// The greatest number that it offered, or the incumbent's first value where it offered none above that.
    pub fn offered(&self) -> u64
        ensures offered { result ≡ self.now.offered }
        ensures at_least_first { self.now.incumbent.first ≤ result }
        ensures at_most_seen { result ≤ self.now.seen }
    {
        self.offered
    }
}

impl Incumbent {
    /// An incumbent that starts at `first`, and its first seat, which has all parts.
    pub fn start(alloc: Global, first: u64, parts: u64) -> Result<(Incumbent, Seat), Memory>
        requires { 1 ≤ parts }
        ensures first { IfOk result (λ r. r.0.first ≡ first) }
        ensures all { IfOk result (λ r. r.0.all ≡ parts) }
        ensures seat { IfOk result (λ r. r.1 ≡ seat_view r.0 first first parts) }
    {
        let (table, place) = Table::of_words(alloc, &[first], &(first, parts))?;
        let incumbent = Incumbent { table, first };
        let seat = Seat {
            place,
            seen: first,
            offered: first,
        };
        Ok((incumbent, seat))
    }

    /// Looks at the incumbent, by one load: the answer is the seat's new `seen`.
    pub fn look(&self, seat: &mut Seat) -> u64
        requires { seat.old.incumbent ≡ self.now }
        ensures seat { seat.new ≡ seat_view self.now result seat.old.offered seat.old.parts }
        ensures rises { seat.old.seen ≤ result }
    {
        let found = self.table.shared.load::<Look>(&mut seat.place, 0);
        seat.seen = found;
        found
    }

    /// Offers a welfare, by one `fetch_max`: the answer is the seat's new `seen`, and at least the welfare.
    pub fn offer(&self, seat: &mut Seat, welfare: u64) -> u64
        requires { seat.old.incumbent ≡ self.now }
        ensures seat { seat.new ≡ seat_view self.now result (max seat.old.offered welfare) seat.old.parts }
        ensures rises { seat.old.seen ≤ result }
        ensures counted { welfare ≤ result }
    {
        let found = self
            .table
            .shared
            .fetch_max::<Offer>(&mut seat.place, 0, welfare);
        seat.seen = found.max(welfare);
        seat.offered = seat.offered.max(welfare);
        seat.seen
    }

    /// Gives one part to a new seat, which has seen what this one saw and offered nothing.
    pub fn split(&self, seat: &mut Seat) -> Seat
        requires incumbent { seat.old.incumbent ≡ self.now }
        requires parts { 2 ≤ seat.old.parts }
        ensures left { seat.new ≡ seat_view self.now seat.old.seen seat.old.offered (seat.old.parts - 1) }
        ensures new { result ≡ seat_view self.now seat.old.seen self.now.first 1 }
    {
        let place = self.table.shared.split_seat::<OnePart>(&mut seat.place);
        Seat {
            place,
            seen: seat.seen,
            offered: self.first,
        }
    }

    /// Lets one seat see what another saw. All other numbers of both stay.
    pub fn meet(&self, into: &mut Seat, from: &mut Seat) -> u64
        requires into { into.old.incumbent ≡ self.now }
        requires from { from.old.incumbent ≡ self.now }
        ensures into { into.new ≡ seat_view self.now result into.old.offered into.old.parts }
        ensures from { from.new ≡ from.old }
        ensures greater { result ≡ max into.old.seen from.old.seen }
    {
        let note = self.table.shared.split_seat::<Note>(&mut from.place);
        self.table.shared.join_seat::<Both>(&mut into.place, note);
        into.seen = into.seen.max(from.seen);
        into.seen
    }

    /// Takes a seat into another, with what it saw, what it offered, and its parts.
    pub fn join(&self, into: &mut Seat, from: Seat)
        requires into { into.old.incumbent ≡ self.now }
        requires from { from.incumbent ≡ self.now }
        ensures { into.new ≡ seat_view self.now (max into.old.seen from.seen) (max into.old.offered from.offered) (into.old.parts + from.parts) }
    {
        let Seat {
            place,
            seen,
            offered,
        } = from;
        self.table.shared.join_seat::<Both>(&mut into.place, place);
        into.seen = into.seen.max(seen);
        into.offered = into.offered.max(offered);
    }

    /// Closes the incumbent by a seat that has all parts. The answer is its number, which is the greatest offered.
    pub fn close(self, seat: Seat) -> u64
        requires incumbent { seat.incumbent ≡ self }
        requires parts { seat.parts ≡ self.all }
        ensures offered { result ≡ seat.offered }
        ensures seen { result ≡ seat.seen }
    {
        let Incumbent { table, first: _ } = self;
        let Seat {
            place,
            seen: _,
            offered: _,
        } = seat;
        let closed = table.close_with(place);
        let incumbent = closed.word(0);
        closed.free();
        incumbent
    }
}
