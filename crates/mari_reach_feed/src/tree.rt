//! The items of a tree as values, and the gap of a block.

ghost use Rattle.std.specs.Prelude.{◌≡◌, ◌++◌, OnOk};
ghost use Rattle.serde_json.specs.Written.{compact_text};
ghost use Rattle.mari_units.specs.Names.{IsName};
ghost use Rattle.mari_market.specs.Price.{IsCapped};
ghost use Rattle.mari_reach_lines.specs.Ranges.{IsClaim};
ghost use Rattle.mari_reach_text.specs.declared.named.NamedItem.TheVariants as named;
ghost use Rattle.mari_reach_feed.specs.Texts.{NamedItemFits};
ghost use Rattle.mari_reach_feed.specs.Values.{gap_value, named_value};

use mari_feed::{Printed, put_end, put_first, put_next, put_string};
use mari_market::{Cut, Prices};
use mari_reach_lines::Claim;
use mari_reach_text::NamedItem;
use mari_units::{Cents, Memory, Name, Quarters, put};

/// The gap of a block, or null.
pub struct ClaimGap;

impl Printed for ClaimGap {
    type Item = Claim;

    ghost written = { gap_value };

    ghost InItsRange = { IsClaim };

    fn put(text: &mut Vec<u8>, claim: &Claim) -> Result<(), Memory> {
        match claim {
            Claim::First => put(text, b"null"),
            Claim::Within(gap) => Quarters::put(text, gap),
        }
    }
}

/// Appends a branching at the gate of a bid.
fn put_gate(text: &mut Vec<u8>, bid: &Name) -> Result<(), Memory>
    requires { IsName bid.now }
    ensures { OnOk result (text.new.items ≡ text.old.items ++ compact_text (named_value (named.Gate bid.now))) }
{
    put_first::<Name>(text, "branch", bid)?;
    put_end(text)
}

/// Appends a branching at the price of a zone.
fn put_price(text: &mut Vec<u8>, zone: &Name, price: &Cents) -> Result<(), Memory>
    requires name { IsName zone.now }
    requires price { IsCapped price.now }
    ensures { OnOk result (text.new.items ≡ text.old.items ++ compact_text (named_value (named.Price zone.now price.now))) }
{
    put_first::<Cents>(text, "price", price)?;
    put_next::<Name>(text, "zone", zone)?;
    put_end(text)
}

/// An item of a tree.
pub struct PrintedItem;

impl Printed for PrintedItem {
    type Item = NamedItem;

    ghost written = { named_value };

    ghost InItsRange = { NamedItemFits };

    fn put(text: &mut Vec<u8>, item: &NamedItem) -> Result<(), Memory> {
        match item {
            NamedItem::Gate(bid) => put_gate(text, bid),
            NamedItem::Price(zone, price) => put_price(text, zone, price),
            NamedItem::Void => put_string(text, b"none"),
            NamedItem::Bound(potentials) => Prices::put(text, potentials),
            NamedItem::Cut(cut) => Cut::put(text, cut),
        }
    }
}
