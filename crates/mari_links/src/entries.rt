//! The links of one bid, while they are read.
ghost use Rattle.std.specs.Prelude.{◌≡◌, true, None, Some, [], OnOk, IfOk};
ghost use Rattle.mari_links.specs.Entries.{with_named};

use crate::lines::LinkKind;
use crate::links::BidLinks;
use mari_units::Items;
use std::alloc::{AllocError, AllocFailed, Global};
use std::marker::Model;

/// The links of one bid so far, which contracts see as they are given in the end.
#[derive(Drop)]
pub struct Entry {
    gated: bool,
    group: Option<u32>,
    parent: Option<u32>,
    needs: Vec<u32>,
    bars: Vec<u32>,
    technical: Vec<u32>,
}

impl Model for Entry {
    ghost use Rattle.mari_links.specs.declared.links.BidLinks.{BidLinks};

    ghost Value = { BidLinks };

    ghost view = { λ e. record {
      gated = e.gated;
      group = e.group;
      parent = e.parent;
      needs = e.needs.items;
      bars = e.bars.items;
      technical = e.technical.items;
    } };
}

impl Entry {
    /// No links yet.
    pub fn new(alloc: Global, gated: bool) -> Self
        ensures { result ≡ record { gated = gated; group = None; parent = None; needs = []; bars = []; technical = [] } }
    {
        Entry {
            gated,
            group: None,
            parent: None,
            needs: Vec::new(alloc),
            bars: Vec::new(alloc),
            technical: Vec::new(alloc),
        }
    }

    /// Whether the bid has a gate.
    pub fn is_gated(&self) -> bool
        ensures { result ≡ self.now.gated }
    {
        self.gated
    }

    /// The bid's group.
    pub fn group(&self) -> Option<u32>
        ensures { result ≡ self.now.group }
    {
        self.group
    }

    /// The bid's parent.
    pub fn parent(&self) -> Option<u32>
        ensures { result ≡ self.now.parent }
    {
        self.parent
    }

    /// Puts the bid into a group.
    pub fn join(&mut self, group: u32)
        ensures { self.new ≡ record self.old { gated = true; group = Some group } }
    {
        self.gated = true;
        self.group = Some(group);
    }

    /// Gives the bid a parent.
    pub fn follow(&mut self, parent: u32)
        ensures { self.new ≡ record self.old { gated = true; parent = Some parent } }
    {
        self.gated = true;
        self.parent = Some(parent);
    }

    /// Makes the bid a parent.
    pub fn lead(&mut self)
        ensures { self.new ≡ record self.old { gated = true } }
    {
        self.gated = true;
    }

    /// Names a bid of an earlier quarter in a link of a kind.
    pub fn name(&mut self, kind: LinkKind, other: u32) -> Result<(), AllocFailed<u32>>
        ensures { OnOk result (self.new ≡ with_named kind other self.old) }
    {
        match kind {
            LinkKind::Needs => self.needs.push(other),
            LinkKind::Bars => self.bars.push(other),
            LinkKind::Technical => self.technical.push(other),
            LinkKind::Group | LinkKind::Child => Ok(()),
        }
    }

    /// The links, as they are given.
    pub fn into_links(self) -> BidLinks
        ensures { result ≡ self }
    {
        let Entry {
            gated,
            group,
            parent,
            needs,
            bars,
            technical,
        } = self;
        BidLinks {
            gated,
            group,
            parent,
            needs: Items::of(needs),
            bars: Items::of(bars),
            technical: Items::of(technical),
        }
    }
}

/// The links of each bid, as they are given.
pub fn links_of(alloc: Global, entries: Vec<Entry>) -> Result<Vec<BidLinks>, AllocError>
    ensures { IfOk result (λ links. links.items ≡ entries.items) }
{
    entries
        .into_iter()
        .map(|entry| entry.into_links())
        .collect(alloc)
}
