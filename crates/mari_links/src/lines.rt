//! What a line says by itself.
ghost use Rattle.std.specs.Prelude.{◌≡◌, ◌<◌, length, IfOk, OnOk};
ghost use Rattle.mari_rows.specs.Books.{first_failing};
ghost use Rattle.mari_rows.specs.Checks.{IsRead};
ghost use Rattle.mari_links.specs.LinkChecks.{link_check_number};
ghost use Rattle.mari_links.specs.Links.{kind_named, kind_of as kind_in, least_of_bid as least_in, link_of, name_checks, quarter_of as quarter_in};
ghost use Rattle.mari_links.specs.Entries.{some_link};

use crate::links::LinkCheck;
use mari_bids::BidBook;
use mari_rows::Row;
use mari_units::is_name_text;

/// The word that puts a bid into a group.
const GROUP: &[u8] = b"group";

/// The word that names a bid's parent.
const CHILD: &[u8] = b"child";

/// The word that says that a bid needs another.
const NEEDS: &[u8] = b"needs";

/// The word that says that another bid bars one.
const BARS: &[u8] = b"bars";

/// The word that says that another bid bars one where it was activated in a direct run.
const TECHNICAL: &[u8] = b"technical";

/// How a line links bids.
#[derive(Clone, Copy, Debug, PartialEq, Eq, Hash)]
pub enum LinkKind {
    /// A bid is in a group.
    Group,
    /// A bid has a parent.
    Child,
    /// A bid needs another to have been activated.
    Needs,
    /// Another bid bars it where it was activated.
    Bars,
    /// The same, where it was activated in a direct run.
    Technical,
}

/// A line of links.csv.
#[derive(Clone, Copy, Debug, PartialEq, Eq, Hash)]
pub struct Link {
    /// Its kind.
    pub kind: LinkKind,
    /// The place of its first bid, from 0; in a line of a group it says nothing.
    pub first: u32,
    /// The place of its second bid, from 0.
    pub second: u32,
}

/// The kind that a word names. Comparisons cost less to prove than a match on byte strings.
#[tactic(auto, unfolding(crate::specs::Links::group_word, crate::specs::Links::child_word, crate::specs::Links::needs_word, crate::specs::Links::bars_word, crate::specs::Links::technical_word))]
fn kind_of(word: &[u8]) -> Option<LinkKind>
    ensures { result ≡ kind_named word.now }
{
    if word == GROUP {
        Some(LinkKind::Group)
    } else if word == CHILD {
        Some(LinkKind::Child)
    } else if word == NEEDS {
        Some(LinkKind::Needs)
    } else if word == BARS {
        Some(LinkKind::Bars)
    } else if word == TECHNICAL {
        Some(LinkKind::Technical)
    } else {
        None
    }
}

/// The quarter of the bid at a place.
pub fn quarter_of(bids: &BidBook, bid: u32) -> u32
    ensures { result ≡ quarter_in bids.now bid }
{
    match bids.bids.as_slice().get(bid as usize) {
        Some(bid) => bid.quarter,
        None => 0,
    }
}

/// The least quantity of the bid at a place.
pub fn least_of(bids: &BidBook, bid: u32) -> u32
    ensures { result ≡ least_in bids.now bid }
{
    match bids.bids.as_slice().get(bid as usize) {
        Some(bid) => bid.least,
        None => 0,
    }
}

/// The link of a line that names what it should, or the first check that fails.
pub fn read_link(bids: &BidBook, line: &Row) -> Result<Link, LinkCheck>
    ensures link { IsRead link_check_number result (first_failing (name_checks bids.now line.now)) (some_link bids.now line.now) }
    ensures passes { OnOk result (first_failing (name_checks bids.now line.now) ≡ None) }
    ensures kind { IfOk result (λ link. kind_in line.now ≡ Some link.kind) }
    ensures says { IfOk result (λ link. link ≡ link_of bids.now line.now link.kind) }
    ensures first { IfOk result (λ link. link.first < length bids.now.ids) }
    ensures second { IfOk result (λ link. link.second < length bids.now.ids) }
{
    let Some(kind) = kind_of(line.field(0)) else {
        return Err(LinkCheck::BadKind);
    };
    if kind == LinkKind::Group && !is_name_text(line.field(1)) {
        return Err(LinkCheck::BadField);
    }
    let first = bids.ids.find(line.field(1));
    let second = bids.ids.find(line.field(2));
    if second.is_none() || (kind != LinkKind::Group && first.is_none()) {
        return Err(LinkCheck::UnknownBid);
    }
    Ok(Link {
        kind,
        first: first.unwrap_or(0),
        second: second.unwrap_or(0),
    })
}
