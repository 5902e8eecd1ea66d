//! How an item stands in the feed, both ways, and how a list of such items is read.

ghost use Rattle.std.specs.Prelude.{◌≡◌, ◌++◌, OnOk};
ghost use Rattle.serde_json.specs.View.{view};
ghost use Rattle.serde_json.specs.Written.{compact_text};
ghost use Rattle.mari_lines.specs.Ranges.{Listed};
ghost use Rattle.mari_feed.specs.Reading.{Reads};
ghost use Rattle.mari_feed.specs.Values.{list_of};

use crate::fault::FeedFault;
use mari_units::{Items, Memory};
use serde_json::Value;
use std::alloc::Global;

/// How an item is written in the feed.
pub trait Printed {
    ghost use Rattle.serde_json.specs.Data.{Data};

    /// What is written.
    type Item: Drop;

    /// The value of an item.
    ghost written: { Self.Item → Data };

    /// Which items there are.
    ghost InItsRange: { Self.Item → Type 0 };

    /// Appends the text of an item's value.
    fn put(text: &mut Vec<u8>, item: &Self::Item) -> Result<(), Memory>
        requires { InItsRange item.now }
        ensures { OnOk result (text.new.items ≡ text.old.items ++ compact_text (written item.now)) };
}

/// How an item stands in the feed, both ways.
pub trait Form: Printed {
    /// The item that has this value.
    fn read(alloc: Global, value: &Value) -> Result<Self::Item, FeedFault>
        ensures { Reads Self.InItsRange Self.written (view value.now) result };
}

/// The list that has this value, of `least` to `greatest` items.
pub fn read_list<F: Form>(
    alloc: Global,
    value: &Value,
    least: usize,
    greatest: usize,
) -> Result<Items<F::Item>, FeedFault>
    ensures { Reads (Listed least greatest F.InItsRange) (list_of F.written) (view value.now) result }
{
    let Some(list) = value.as_array() else {
        return Err(FeedFault::NotAPart);
    };
    let values = list.as_slice();
    if values.len() < least {
        return Err(FeedFault::NotAPart);
    }
    if values.len() > greatest {
        return Err(FeedFault::NotAPart);
    }
    let mut items = Vec::new(alloc);
    for item in values {
        let read = F::read(alloc, item)?;
        items.push(read)?;
    }
    Ok(Items::of(items))
}
