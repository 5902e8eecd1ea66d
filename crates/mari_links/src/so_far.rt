//! What the lines so far say.
ghost use Rattle.std.specs.Prelude.{◌≡◌, ◌<◌, ◌++◌, ◌∷◌, [], ◌==◌, List, true, false, length, option_map, IfOk, OnOk};
ghost use Rattle.std.specs.List.{list_any};
ghost use Rattle.mari_units.specs.Names.{is_name};
ghost use Rattle.mari_rows.specs.Books.{first_failing};
ghost use Rattle.mari_rows.specs.Checks.{TakesLine};
ghost use Rattle.mari_links.specs.LinkChecks.{link_check_number};
ghost use Rattle.mari_rows.specs.declared.rows.Row.{Row as Line};
ghost use Rattle.mari_links.specs.Links.{has_wrong_quarter as has_wrong_quarter_in, is_repeated as is_repeated_in, is_same_link, kind_of, first_of, line_checks, link_book, link_file_checks, link_of, place_checks, said_by, Member, Said};
ghost use Rattle.mari_links.specs.declared.lines.Link.{Link as TheLink};

use crate::entries::{Entry, links_of};
use crate::gates::has_too_many_gates;
use crate::groups::Groups;
use crate::lines::{Link, LinkKind, least_of, quarter_of, read_link};
use crate::links::{LinkBook, LinkCheck};
use indexmap::IndexSet;
use mari_bids::BidBook;
use mari_rows::{LineFault, Row};
use mari_units::{Items, Memory};
use std::alloc::{AllocError, Global};

/// The groups, the links to earlier quarters and what is said of each bid.
#[derive(Drop)]
pub struct LinksSoFar {
    groups: Groups,
    timed: IndexSet<Link>,
    entries: Vec<Entry>,
}

impl LinksSoFar {
    ghost use Rattle.mari_links.specs.SoFar.{HoldsLinks};

    /// Nothing is said yet.
    pub fn new(alloc: Global, bids: &BidBook) -> Result<Self, AllocError>
        ensures { IfOk result (HoldsLinks bids.now (said_by bids.now [])) }
    {
        let mut entries = Vec::new(alloc);
        for bid in 0..bids.ids.len() {
            entries.push(Entry::new(alloc, least_of(bids, bid) > 0))?;
        }
        Ok(LinksSoFar {
            groups: Groups::new(alloc),
            timed: IndexSet::new(alloc),
            entries,
        })
    }

    /// Puts a bid into a group.
    fn join(&mut self, alloc: Global, bids: &BidBook, group: &[u8], bid: u32) -> Result<(), Memory>
        requires room { length self.old.groups.names < u32.MAX }
        requires group { is_name group.now ≡ true }
        requires bid { bid < length bids.now.ids }
        requires sized { length self.old.entries.items ≡ length bids.now.ids }
        ensures { (said : Said) → HoldsLinks bids.now said self.old → list_any (λ (member : Member). member.bid == bid) said.members ≡ false
            → OnOk result (HoldsLinks bids.now (record said { members = said.members ++ record { group = group.now; bid = bid } ∷ [] }) self.new) }
    {
        let group = self.groups.add(alloc, group, quarter_of(bids, bid))?;
        self.entries[bid as usize].join(group);
        Ok(())
    }

    /// Gives a child its parent.
    fn follow(&mut self, bids: &BidBook, link: Link)
        requires child { link.first < length bids.now.ids }
        requires parent { link.second < length bids.now.ids }
        requires sized { length self.old.entries.items ≡ length bids.now.ids }
        ensures { (said : Said) → HoldsLinks bids.now said self.old → list_any (λ (other : TheLink). other.first == link.first) said.children ≡ false
            → HoldsLinks bids.now (record said { children = said.children ++ link ∷ [] }) self.new }
    {
        self.entries[link.first as usize].follow(link.second);
        self.entries[link.second as usize].lead();
    }

    /// Links a bid to one of an earlier quarter.
    fn name(&mut self, bids: &BidBook, link: Link) -> Result<(), Memory>
        requires first { link.first < length bids.now.ids }
        requires sized { length self.old.entries.items ≡ length bids.now.ids }
        ensures { (said : Said) → HoldsLinks bids.now said self.old → list_any (is_same_link link) said.timed ≡ false
            → OnOk result (HoldsLinks bids.now (record said { timed = said.timed ++ link ∷ [] }) self.new) }
    {
        self.timed.insert(link)?;
        self.entries[link.first as usize].name(link.kind, link.second)?;
        Ok(())
    }

    /// Whether a line links bids of quarters that cannot be so linked.
    fn has_wrong_quarter(&self, bids: &BidBook, line: &Row, link: Link) -> bool
        requires kind { kind_of line.now ≡ Some link.kind }
        requires link { link ≡ link_of bids.now line.now link.kind }
        ensures { (said : Said) → HoldsLinks bids.now said self.now → result ≡ has_wrong_quarter_in bids.now said line.now link.kind }
    {
        let first = u64::from(quarter_of(bids, link.first));
        let second = u64::from(quarter_of(bids, link.second));
        match link.kind {
            LinkKind::Group => match self.groups.quarter(line.field(1)) {
                Some(quarter) => u64::from(quarter) != second,
                None => false,
            },
            LinkKind::Child => first != second,
            LinkKind::Technical => first != second + 1,
            LinkKind::Needs | LinkKind::Bars => first != second + 1 && first != second + 2,
        }
    }

    /// Whether an earlier line puts the bid into a group, or gives the child a parent, or is equal.
    fn is_repeated(&self, bids: &BidBook, line: &Row, link: Link) -> bool
        requires first { link.first < length bids.now.ids }
        requires second { link.second < length bids.now.ids }
        requires sized { length self.now.entries.items ≡ length bids.now.ids }
        requires link { link ≡ link_of bids.now line.now link.kind }
        ensures { (said : Said) → HoldsLinks bids.now said self.now → result ≡ is_repeated_in bids.now said line.now link.kind }
    {
        match link.kind {
            LinkKind::Group => self.entries[link.second as usize].group().is_some(),
            LinkKind::Child => self.entries[link.first as usize].parent().is_some(),
            LinkKind::Needs | LinkKind::Bars | LinkKind::Technical => self.timed.contains(&link),
        }
    }

    /// The first check that a link fails after the lines so far.
    fn failing_check(&self, bids: &BidBook, line: &Row, link: Link) -> Option<LinkCheck>
        requires first { link.first < length bids.now.ids }
        requires second { link.second < length bids.now.ids }
        requires sized { length self.now.entries.items ≡ length bids.now.ids }
        requires kind { kind_of line.now ≡ Some link.kind }
        requires link { link ≡ link_of bids.now line.now link.kind }
        ensures { (said : Said) → HoldsLinks bids.now said self.now
            → option_map link_check_number result ≡ first_failing (place_checks bids.now said line.now) }
    {
        if self.has_wrong_quarter(bids, line, link) {
            Some(LinkCheck::WrongQuarter)
        } else if link.kind == LinkKind::Child && link.second >= link.first {
            Some(LinkCheck::ParentNotEarlier)
        } else if self.is_repeated(bids, line, link) {
            Some(LinkCheck::Repeated)
        } else {
            None
        }
    }

    /// Holds what a line says that fails no check.
    fn hold(&mut self, alloc: Global, bids: &BidBook, line: &Row, link: Link) -> Result<(), Memory>
        // Room for one more group, and both bids in the book.
        requires room { length self.old.groups.names < u32.MAX }
        requires first { link.first < length bids.now.ids }
        requires second { link.second < length bids.now.ids }
        requires sized { length self.old.entries.items ≡ length bids.now.ids }

        // What is understood of the line: its kind, its bids and, in a group, a name.
        requires kind { kind_of line.now ≡ Some link.kind }
        requires link { link ≡ link_of bids.now line.now link.kind }
        requires group { link.kind ≡ LinkKind.Group → is_name (first_of line.now) ≡ true }

        // What the lines before it say and what this one says, unless it repeats one of them.
        ensures { (earlier : List Line) → HoldsLinks bids.now (said_by bids.now earlier) self.old
            → is_repeated_in bids.now (said_by bids.now earlier) line.now link.kind ≡ false
            → OnOk result (HoldsLinks bids.now (said_by bids.now (earlier ++ line.now ∷ [])) self.new) }
    {
        match link.kind {
            LinkKind::Group => self.join(alloc, bids, line.field(1), link.second)?,
            LinkKind::Child => self.follow(bids, link),
            LinkKind::Needs | LinkKind::Bars | LinkKind::Technical => self.name(bids, link)?,
        }
        Ok(())
    }

    /// Adds what a line says, or reports the first check that it fails.
    pub fn add(
        &mut self,
        alloc: Global,
        bids: &BidBook,
        line: &Row,
    ) -> Result<(), LineFault<LinkCheck>>
        requires room { length self.old.groups.names < u32.MAX }
        requires sized { length self.old.entries.items ≡ length bids.now.ids }
        ensures { (earlier : List Line) → HoldsLinks bids.now (said_by bids.now earlier) self.old
            → TakesLine link_check_number result (first_failing (line_checks bids.now earlier line.now))
            (λ _. HoldsLinks bids.now (said_by bids.now (earlier ++ line.now ∷ [])) self.new) }
    {
        let link = match read_link(bids, line) {
            Ok(link) => link,
            Err(check) => return Err(LineFault::Fails(check)),
        };
        if let Some(check) = self.failing_check(bids, line, link) {
            return Err(LineFault::Fails(check));
        }
        self.hold(alloc, bids, line, link)?;
        Ok(())
    }

    /// What is said of each bid; what else is held is let go.
    fn into_entries(self) -> Vec<Entry>
        ensures { result.items ≡ self.entries.items }
    {
        let LinksSoFar { entries, .. } = self;
        entries
    }

    /// The book, or the refusal of a quarter with too many gates.
    pub fn into_book(self, alloc: Global, bids: &BidBook) -> Result<LinkBook, LineFault<LinkCheck>>
        requires { length self.entries.items ≡ length bids.now.ids }
        ensures { (rows : List Line) → HoldsLinks bids.now (said_by bids.now rows) self
            → TakesLine link_check_number result (first_failing (link_file_checks bids.now rows)) (λ book. book ≡ link_book bids.now rows) }
    {
        let entries = self.into_entries();
        match has_too_many_gates(alloc, bids, entries.as_slice()) {
            Ok(false) => Ok(LinkBook {
                links: Items::of(links_of(alloc, entries)?),
            }),
            Ok(true) => {
                drop(entries);
                Err(LineFault::Fails(LinkCheck::TooManyGates))
            }
            Err(_) => {
                drop(entries);
                Err(LineFault::Memory)
            }
        }
    }
}
