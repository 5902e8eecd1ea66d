//! The items of a certificate tree as values.

ghost use Rattle.mari_lines.specs.Ranges.{InRange};
ghost use Rattle.mari_lines.specs.declared.line.Line.TheVariants as line;
ghost use Rattle.mari_publish.specs.Ranges.{ItemFits};
ghost use Rattle.mari_feed.specs.Ranges.{ConflictFits};
ghost use Rattle.mari_feed.specs.Values.{bound_value, cut_value, conflict_value, item_value};

use crate::fault::FeedFault;
use crate::form::{Form, Printed};
use crate::members::{Members, has_key};
use crate::numbers::{Flow, Megawatts, ZoneNumber};
use crate::text::{put_end, put_first_list, put_next, put_next_list, put_string};
use crate::words::is_same;
use mari_market::{
    Activation, Conflict, Cut, CutSide, Leaf, MOST_ORDERS, Prices, TreeItem, are_rising,
};
use mari_units::{Cents, MOST_BORDERS, MOST_ZONES, Memory};
use serde_json::Value;
use std::alloc::Global;

impl Printed for Prices {
    type Item = Prices;

    ghost written = { bound_value };

    ghost InItsRange = { λ p. InRange (line.Bound p.cents) };

    fn put(text: &mut Vec<u8>, prices: &Prices) -> Result<(), Memory> {
        put_first_list::<Cents>(text, "bound", prices.cents.as_slice())?;
        put_end(text)
    }
}

impl Form for Prices {
    fn read(alloc: Global, value: &Value) -> Result<Prices, FeedFault> {
        let mut members = Members::of(value)?;
        let cents = members.list::<Cents>(alloc, "bound", 1, MOST_ZONES)?;
        members.end()?;
        Ok(Prices { cents })
    }
}

impl Printed for Cut {
    type Item = Cut;

    ghost written = { cut_value };

    ghost InItsRange = { λ c. InRange (line.Cut c) };

    fn put(text: &mut Vec<u8>, cut: &Cut) -> Result<(), Memory> {
        put_first_list::<ZoneNumber>(text, "cut", cut.zones.as_slice())?;
        put_next::<CutSide>(text, "side", &cut.side)?;
        put_end(text)
    }
}

impl Form for Cut {
    fn read(alloc: Global, value: &Value) -> Result<Cut, FeedFault> {
        let mut members = Members::of(value)?;
        let zones = members.list::<ZoneNumber>(alloc, "cut", 1, MOST_ZONES)?;
        let side = members.item::<CutSide>(alloc, "side")?;
        members.end()?;
        if !are_rising(zones.as_slice(), MOST_ZONES as u32) {
            return Err(FeedFault::NotAPart);
        }
        Ok(Cut { side, zones })
    }
}

impl Printed for Conflict {
    type Item = Conflict;

    ghost written = { conflict_value };

    ghost InItsRange = { ConflictFits };

    fn put(text: &mut Vec<u8>, conflict: &Conflict) -> Result<(), Memory> {
        put_first_list::<Cents>(text, "at", conflict.potentials.cents.as_slice())?;
        put_next_list::<ZoneNumber>(text, "conflict", conflict.chain.as_slice())?;
        put_next_list::<Flow>(text, "flows", conflict.activation.flow.as_slice())?;
        put_next_list::<Megawatts>(text, "mws", conflict.activation.mw.as_slice())?;
        put_end(text)
    }
}

impl Form for Conflict {
    fn read(alloc: Global, value: &Value) -> Result<Conflict, FeedFault> {
        let mut members = Members::of(value)?;
        let cents = members.list::<Cents>(alloc, "at", 1, MOST_ZONES)?;
        let chain = members.list::<ZoneNumber>(alloc, "conflict", 1, MOST_ZONES)?;
        let flow = members.list::<Flow>(alloc, "flows", 0, MOST_BORDERS)?;
        let mw = members.list::<Megawatts>(alloc, "mws", 0, MOST_ORDERS)?;
        members.end()?;
        Ok(Conflict {
            chain,
            potentials: Prices { cents },
            activation: Activation { mw, flow },
        })
    }
}

impl Printed for TreeItem {
    type Item = TreeItem;

    ghost written = { item_value };

    ghost InItsRange = { ItemFits };

    fn put(text: &mut Vec<u8>, item: &TreeItem) -> Result<(), Memory> {
        match item {
            TreeItem::Branch => put_string(text, b"branch"),
            TreeItem::Leaf(Leaf::Bound(prices)) => Prices::put(text, prices),
            TreeItem::Leaf(Leaf::Cut(cut)) => Cut::put(text, cut),
            TreeItem::Leaf(Leaf::Conflict(conflict)) => Conflict::put(text, conflict),
        }
    }
}

impl Form for TreeItem {
    fn read(alloc: Global, value: &Value) -> Result<TreeItem, FeedFault> {
        if let Some(text) = value.as_str() {
            if is_same(text, "branch") {
                return Ok(TreeItem::Branch);
            }
            return Err(FeedFault::NotAPart);
        }
        let leaf = if has_key(value, "bound") {
            Leaf::Bound(Prices::read(alloc, value)?)
        } else if has_key(value, "cut") {
            Leaf::Cut(Cut::read(alloc, value)?)
        } else {
            Leaf::Conflict(Conflict::read(alloc, value)?)
        };
        Ok(TreeItem::Leaf(leaf))
    }
}
