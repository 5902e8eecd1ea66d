//! The links of a day.
ghost use Rattle.std.specs.Prelude.{◌≤◌, length, IfOk};
ghost use Rattle.mari_rows.specs.Books.{book_in, GivesBook};
ghost use Rattle.mari_links.specs.LinkChecks.{link_check_name, link_check_number};
ghost use Rattle.mari_links.specs.Links.{link_grammar, said_by, IsLinkBook};

use crate::so_far::LinksSoFar;
use mari_bids::BidBook;
use mari_rows::{BookFault, BookSoFar, FileCheck, LineFault, Row, read_book};
use mari_units::{Items, MOST_PAGE};
use std::alloc::Global;

const COLUMNS: &str = "kind,first,second";

/// A check of links.csv.
#[derive(Clone, Copy, Debug, PartialEq, Eq)]
pub enum LinkCheck {
    /// There is no such kind of link.
    BadKind,
    /// A field that names a bid names none of bids.csv.
    UnknownBid,
    /// The quarters of the bids don't go together.
    WrongQuarter,
    /// The parent doesn't stand before its child in bids.csv.
    ParentNotEarlier,
    /// The bid is in a group already, the child has a parent already, or the line stands there twice.
    Repeated,
    /// The group isn't a name.
    BadField,
    /// A quarter has more than `MOST_GATES` gated bids.
    TooManyGates,
}

impl FileCheck for LinkCheck {
    const ALL: &'static [Self] = &[
        LinkCheck::BadKind,
        LinkCheck::UnknownBid,
        LinkCheck::WrongQuarter,
        LinkCheck::ParentNotEarlier,
        LinkCheck::Repeated,
        LinkCheck::BadField,
        LinkCheck::TooManyGates,
    ];

    ghost number = { link_check_number };

    ghost name = { link_check_name };

    #[tactic(auto, unfolding(crate::specs::LinkChecks::link_check_name))]
    fn entry(self) -> (u8, &'static str) {
        match self {
            LinkCheck::BadKind => (11, "BadKind"),
            LinkCheck::UnknownBid => (12, "UnknownBid"),
            LinkCheck::WrongQuarter => (13, "WrongQuarter"),
            LinkCheck::ParentNotEarlier => (14, "ParentNotEarlier"),
            LinkCheck::Repeated => (15, "Repeated"),
            LinkCheck::BadField => (16, "BadField"),
            LinkCheck::TooManyGates => (17, "TooManyGates"),
        }
    }
}

/// What the links say of one bid.
///
/// A gated bid is taken from its least quantity on, 1 MW at least, or not at all; a plain one from 0 on. At most one
/// bid of a group is taken, and a bid with a parent only where its parent is. It is available only where each bid that
/// it needs was activated, none that bars it was, and none of the technical ones was in a direct run.
#[derive(Drop)]
pub struct BidLinks {
    /// Whether it has a gate.
    pub gated: bool,
    /// The place of its exclusive group among the groups, from 0, if it is in one.
    pub group: Option<u32>,
    /// The place of its parent among the bids, from 0, if it has one.
    pub parent: Option<u32>,
    /// The places of the bids that it needs, from 0.
    pub needs: Items<u32>,
    /// The places of the bids that bar it.
    pub bars: Items<u32>,
    /// The places of the bids that bar it where they were activated in a direct run.
    pub technical: Items<u32>,
}

/// The links of each bid, in the order of the bids.
#[derive(Drop)]
pub struct LinkBook {
    /// What the links say of each bid.
    pub links: Items<BidLinks>,
}

impl LinkBook {
    /// The book of a page of links between these bids, or its first refusal.
    pub fn read(alloc: Global, links: &[u8], bids: &BidBook) -> Result<LinkBook, BookFault>
        requires { length links.now ≤ MOST_PAGE }
        ensures book { GivesBook result (book_in (link_grammar bids.now) links.now) }
        ensures links { IfOk result (IsLinkBook bids.now) }
    {
        let none = LinksOfBids {
            bids,
            said: LinksSoFar::new(alloc, bids)?,
        };
        read_book(alloc, links, COLUMNS, none)
    }
}

/// What the lines so far say of these bids.
#[derive(Drop)]
struct LinksOfBids<'a> {
    bids: &'a BidBook,
    said: LinksSoFar,
}

impl<'a> BookSoFar for LinksOfBids<'a> {
    ghost use Rattle.mari_links.specs.SoFar.{HoldsLinks};

    type Check = LinkCheck;

    type Book = LinkBook;

    ghost grammar = { λ so_far. link_grammar so_far.bids.now };

    ghost Holds = { λ so_far lines. HoldsLinks so_far.bids.now (said_by so_far.bids.now lines) so_far.said };

    fn take(&mut self, alloc: Global, line: &Row) -> Result<(), LineFault<LinkCheck>> {
        self.said.add(alloc, self.bids, line)
    }

    fn end(self, alloc: Global) -> Result<LinkBook, LineFault<LinkCheck>> {
        self.said.into_book(alloc, self.bids)
    }
}
