//! Prices that a search decides again and again: one that decides them first has each chain of prices below them once.

ghost use Rattle.mari_market.specs.Market.{IsValid};

use crate::nodes::{Kind, Node};
use crate::search::{Search, Stop};
use mari_market::Market;
use mari_reach::Choice;
use std::alloc::{AllocError, Global};

/// The most searches that are begun anew.
const MOST_TRIED: u32 = 8;

/// The nodes of each.
const NODES_EACH: u32 = 1024;

/// A price of a zone, at which a branch may stand.
#[derive(Clone, Copy, Debug, Drop, PartialEq, Eq, PartialOrd, Ord)]
pub(crate) struct Price {
    /// The zone.
    pub(crate) zone: u32,
    /// The price, in cents per MWh.
    pub(crate) cents: i64,
}

/// The price at which a node branches.
fn price_of(node: &Node) -> Option<Price> {
    match &node.kind {
        Kind::Branch(Choice::OfPrice(zone, price), _) => Some(Price {
            zone: *zone,
            cents: price.0,
        }),
        _ => None,
    }
}

/// The price that stands most often in a sorted list, the first of those; nothing where none stands twice.
fn most_frequent(sorted: &[Price]) -> Option<Price> {
    let mut most = None;
    let mut greatest = 1u32;
    let mut last = None;
    let mut count = 0u32;
    for price in sorted {
        count = if last == Some(*price) {
            count.saturating_add(1)
        } else {
            1
        };
        last = Some(*price);
        if count > greatest {
            greatest = count;
            most = last;
        }
    }
    most
}

impl Search {
    /// The price at which the most chains of price branches begin, but for those that are asked.
    fn most_repeated(&self, alloc: Global) -> Result<Option<Price>, AllocError> {
        let mut prices = Vec::new(alloc);
        for node in &self.nodes {
            let Some(price) = price_of(node) else {
                continue;
            };
            let is_within = match self.nodes.get(node.parent as usize) {
                Some(above) => price_of(above).is_some(),
                None => false,
            };
            if !is_within && !self.asked.contains(&price) {
                prices.push(price)?;
            }
        }
        prices.sort()?;
        Ok(most_frequent(&prices))
    }

    /// The search anew, with its most repeated price asked too.
    fn asking_more(&self, alloc: Global, market: &Market) -> Result<Option<Search>, AllocError>
        requires { IsValid market.now }
    {
        let Some(price) = self.most_repeated(alloc)? else {
            return Ok(None);
        };
        let mut asked = Vec::from_slice(alloc, &self.asked)?;
        asked.push(price)?;
        Ok(Some(self.part(alloc, market, Vec::new(alloc), asked)?))
    }

    /// Searches anew, each time with one more repeated price asked. It goes on with the search whose greatest bound is the
    /// least, and says whether that one ended.
    pub(crate) fn with_repeated(
        self,
        alloc: Global,
        market: &Market,
    ) -> Result<(Search, Stop), AllocError>
        requires { IsValid market.now }
    {
        let mut least = self;
        let mut next = least.asking_more(alloc, market)?;
        for _ in 0..MOST_TRIED {
            let Some(mut search) = next else {
                break;
            };
            if let Stop::Done = search.run(alloc, market, NODES_EACH)? {
                return Ok((search, Stop::Done));
            }
            next = search.asking_more(alloc, market)?;
            least.offer(search.best, search.word);
            if search.top() < least.top() {
                least = search;
            }
        }
        Ok((least, Stop::Left))
    }
}
