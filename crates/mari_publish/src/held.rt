//! A part of a text as far as it has come.

ghost use Rattle.std.specs.Prelude.{◌≡◌};
ghost use Rattle.mari_publish.specs.Order.{nothing_kept};

use mari_lines::{AmountLine, BidLine, BorderLine, Heading, MoneyLine, ZoneLine};
use mari_market::TreeItem;
use mari_units::{Cents, Items};

/// What has come of a conflict's four lines.
#[derive(Drop)]
pub enum Pending {
    /// No conflict has begun.
    Nothing,
    /// Its chain of zones.
    Zones(Items<u32>),
    /// Its chain and its potentials.
    At(Items<u32>, Items<Cents>),
    /// Its chain, its potentials and its flows.
    Flows(Items<u32>, Items<Cents>, Items<i64>),
}

/// A block before its tree.
#[derive(Drop)]
pub struct Listing {
    /// The run.
    pub heading: Heading,
    /// Its welfare, in quarter-cents.
    pub welfare: u64,
    /// The lines of zones so far.
    pub zones: Items<ZoneLine>,
    /// The lines of borders so far.
    pub borders: Items<BorderLine>,
    /// The lines of bids so far.
    pub bids: Items<BidLine>,
    /// How much of each demand so far is met, in MW.
    pub demands: Items<u32>,
}

/// A block from its tree's first line on.
#[derive(Drop)]
pub struct Growing {
    /// What stands before the tree.
    pub listing: Listing,
    /// How many items the tree is to have.
    pub count: u32,
    /// Its items so far.
    pub tree: Items<TreeItem>,
    /// What has come of a conflict that is not whole.
    pub pending: Pending,
}

/// A block after its tree.
#[derive(Drop)]
pub struct Ending {
    /// What stands before the tree.
    pub listing: Listing,
    /// The tree.
    pub tree: Items<TreeItem>,
    /// The lines of operators so far.
    pub operators: Items<MoneyLine>,
    /// The lines of providers so far.
    pub providers: Items<AmountLine>,
}

/// What has come of the part that is being read.
#[derive(Drop)]
pub enum Held {
    /// Nothing has come.
    Start,
    /// The head or a block is whole, and no further one has begun.
    Between,
    /// The first line of a published block.
    Run(Heading),
    /// A block before its tree.
    Listing(Listing),
    /// A block from the first line of its tree on.
    Growing(Growing),
    /// A block after its tree.
    Ending(Ending),
    /// The totals of operators and of providers so far.
    Totals(Items<MoneyLine>, Items<AmountLine>),
    /// The last line has come.
    Done,
}

/// How many blocks there are so far.
#[derive(Clone, Copy)]
pub struct Counts {
    /// How many are published.
    pub published: u32,
    /// How many are not.
    pub unpublished: u32,
}

/// What a reader keeps between two lines.
#[derive(Drop)]
pub struct Kept {
    /// What has come of the part that is being read.
    pub held: Held,
    /// How many blocks have come.
    pub counts: Counts,
}

impl Kept {
    /// What a reader keeps before the first line.
    pub fn start() -> Kept
        ensures { result ≡ nothing_kept }
    {
        Kept {
            held: Held::Start,
            counts: Counts {
                published: 0,
                unpublished: 0,
            },
        }
    }
}
