//! The rule of the incumbent, and the kinds of step on it.

use atomic_table::{Join, Play, Split, TableRule};

/// What a seat knows. No value of it is made.
pub struct View {
    /// The incumbent's first number.
    pub first: u64,
    /// The parts of all seats together.
    pub all: u64,
    /// The greatest number that the seat has seen.
    pub seen: u64,
    /// The greatest number that it has offered.
    pub offered: u64,
    /// Its own parts.
    pub parts: u64,
}

/// What holds of the words and the views at any time. Its key is the first number and the parts of all seats.
pub struct Law;

impl TableRule<(), View, (u64, u64)> for Law {
    ghost use Rattle.mari_incumbent.specs.Rule.{KeepsRule, view_of};

    ghost holds = { λ k s. KeepsRule k.0 k.1 s.words s.views };

    ghost first = { λ k. view_of k.0 k.1 k.0 k.0 k.1 };
}

/// One load.
pub struct Look;

impl Play<(), View> for Look {
    ghost use Rattle.mari_incumbent.specs.Rule.{Looks};

    ghost then = { Looks };
}

/// One `fetch_max`.
pub struct Offer;

impl Play<(), View> for Offer {
    ghost use Rattle.mari_incumbent.specs.Rule.{Offers};

    ghost then = { Offers };
}

/// One part goes to a new seat.
pub struct OnePart;

impl Split<View> for OnePart {
    ghost use Rattle.mari_incumbent.specs.Rule.{less_one, one_part};

    ghost left = { less_one };

    ghost right = { one_part };
}

/// A seat without parts, which carries what was seen.
pub struct Note;

impl Split<View> for Note {
    ghost use Rattle.mari_incumbent.specs.Rule.{note_of};

    ghost left = { λ v. v };

    ghost right = { note_of };
}

/// A seat is joined into another.
pub struct Both;

impl Join<View> for Both {
    ghost use Rattle.mari_incumbent.specs.Rule.{both_of, nothing};

    ghost both = { both_of };

    ghost spent = { nothing };
}
