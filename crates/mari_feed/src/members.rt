//! The members of an object, read one after the other.

ghost use Rattle.std.specs.Prelude.{◌≡◌, ◌≢◌, ◌<◌, MatchResult, None, is_some};
ghost use Rattle.serde_json.specs.Data.{Data as TheData, Members as TheMembers, member, no_members, object};
ghost use Rattle.serde_json.specs.Find.{as_object, get};
ghost use Rattle.serde_json.specs.View.{view};
ghost use Rattle.mari_lines.specs.Ranges.{Listed};
ghost use Rattle.mari_feed.specs.Reading.{ReadsMember};
ghost use Rattle.mari_feed.specs.Values.{list_of};
ghost use Rattle.mari_feed.specs.declared.fault.FeedFault.TheVariants as feed_fault;

use crate::fault::FeedFault;
use crate::form::{Form, read_list};
use crate::words::is_same;
use mari_units::Items;
use serde_json::Value;
use std::alloc::Global;
use std::collections::btree_map::Iter;

/// Whether a value is an object that has this key.
pub fn has_key(value: &Value, key: &str) -> bool
    ensures { result ≡ is_some (get key.now (view value.now)) }
{
    value.get(key).is_some()
}

/// The members of an object that are left.
#[derive(Drop)]
pub struct Members<'a> {
    rest: Iter<'a, String, Value>,
}

impl<'a> Members<'a> {
    ghost use Rattle.mari_feed.specs.Objects.{members_left};

    /// The members of a value that is an object.
    pub fn of(value: &'a Value) -> Result<Members<'a>, FeedFault>
        ensures { MatchResult result (λ members. view value.now ≡ object (members_left members))
            (λ fault. (fault ≡ feed_fault.NotAPart) × (as_object (view value.now) ≡ None)) }
    {
        match value.as_object() {
            Some(members) => Ok(Members {
                rest: members.iter(),
            }),
            None => Err(FeedFault::NotAPart),
        }
    }

    /// Takes the value of the next member, which must have this key.
    fn next_at(&mut self, key: &str) -> Result<&'a Value, FeedFault>
        ensures { MatchResult result (λ value. members_left self.old ≡ member key.now (view value.now) (members_left self.new))
            (λ fault. (fault ≡ feed_fault.NotAPart) × ((d : TheData) (others : TheMembers) → members_left self.old ≡ member key.now d others → ⊥)) }
    {
        let Some((name, value)) = self.rest.next() else {
            return Err(FeedFault::NotAPart);
        };
        if !is_same(name.as_str(), key) {
            return Err(FeedFault::NotAPart);
        }
        Ok(value)
    }

    /// Takes an item.
    pub fn item<F: Form>(&mut self, alloc: Global, key: &str) -> Result<F::Item, FeedFault>
        ensures { ReadsMember key.now F.InItsRange F.written (members_left self.old) (members_left self.new) result }
    {
        let value = self.next_at(key)?;
        F::read(alloc, value)
    }

    /// Takes a list of `least` to `greatest` items.
    pub fn list<F: Form>(
        &mut self,
        alloc: Global,
        key: &str,
        least: usize,
        greatest: usize,
    ) -> Result<Items<F::Item>, FeedFault>
        ensures { ReadsMember key.now (Listed least greatest F.InItsRange) (list_of F.written) (members_left self.old) (members_left self.new) result }
    {
        let value = self.next_at(key)?;
        read_list::<F>(alloc, value, least, greatest)
    }

    /// Asks for the end of the object.
    pub fn end(mut self) -> Result<(), FeedFault>
        ensures { MatchResult result (λ _. members_left self.entry ≡ no_members)
            (λ fault. (fault ≡ feed_fault.NotAPart) × (members_left self.entry ≢ no_members)) }
    {
        match self.rest.next() {
            None => Ok(()),
            Some(_) => Err(FeedFault::NotAPart),
        }
    }
}
