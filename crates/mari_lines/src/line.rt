//! What a line of the text says.

use mari_market::Cut;
use mari_units::{Cents, Items, Name, Quarters};

/// The most bytes of a line: no line of a text has more. The longest is that of the
/// quantities of `MOST_ORDERS` orders, each of at most five digits and a space.
pub const MOST_LINE: usize = 32_768;

/// The greatest amount of money in a line, either way, in quarter-cents: that of a provider in `MOST_RUNS` runs, each of at
/// most 4 · 10^15, which is twice that of an operator.
pub const MOST_MONEY: u64 = 4_000_000_000_000_000_000;

/// A zone and its prices, in cents per MWh.
#[derive(Drop)]
pub struct ZoneLine {
    /// Its name.
    pub name: Name,
    /// Its published price.
    pub price: Cents,
    /// Its least consistent price.
    pub least: Cents,
    /// Its greatest consistent price.
    pub greatest: Cents,
    /// The number of its price area, from 1.
    pub area: u32,
}

/// A border, its flow and its congestion rent.
#[derive(Drop)]
pub struct BorderLine {
    /// The name of its first zone.
    pub from: Name,
    /// The name of its second zone.
    pub to: Name,
    /// Its flow in MW from the first zone to the second, negative where it flows back.
    pub flow: i64,
    /// Its congestion rent, in quarter-cents.
    pub rent: Quarters,
}

/// A bid and what it runs.
#[derive(Drop)]
pub struct BidLine {
    /// The name of the bid.
    pub id: Name,
    /// How many MW it runs.
    pub mw: u32,
}

/// What an operator pays and gets.
#[derive(Drop)]
pub struct MoneyLine {
    /// The name of the operator.
    pub name: Name,
    /// What it pays for the energy that its zones take in, in quarter-cents; below 0 it is paid.
    pub payment: Quarters,
    /// Its part of the congestion rents, in quarter-cents.
    pub rent: Quarters,
    /// The payment less the rent, in quarter-cents.
    pub net: Quarters,
}

/// What a provider is paid.
#[derive(Drop)]
pub struct AmountLine {
    /// The name of the provider.
    pub name: Name,
    /// What it is paid, in quarter-cents; below 0 it pays.
    pub amount: Quarters,
}

/// What names a run.
#[derive(Clone, Copy, Debug, PartialEq, Eq)]
pub struct Heading {
    /// The number of the run, from 1.
    pub run: u32,
    /// Its quarter hour, from 1.
    pub quarter: u32,
    /// Whether it is direct, and not scheduled.
    pub direct: bool,
}

/// A line by its kind.
#[derive(Drop)]
pub enum Line {
    /// The date, the number of quarter hours, and the budget of nodes.
    Head(Name, u32, u32),
    /// A published run.
    Run(Heading),
    /// A run that is not published, and how many nodes its search made.
    Unpublished(Heading, u32),
    /// The welfare of a run, in quarter-cents.
    Welfare(u64),
    /// A zone and its prices.
    Zone(ZoneLine),
    /// A border, its flow and its rent.
    Border(BorderLine),
    /// A bid and what it runs.
    Bid(BidLine),
    /// A demand by its place in the run, from 1, and how many MW of it are met.
    Demand(u32, u32),
    /// How many items the certificate tree has.
    Tree(u32),
    /// An item of the tree: the next gate is decided.
    Branch,
    /// An item of the tree: potentials, in cents per MWh.
    Bound(Items<Cents>),
    /// An item of the tree: zones that nothing can balance.
    Cut(Cut),
    /// An item of the tree, in four lines: the zones of its chain,
    Conflict(Items<u32>),
    /// its potentials, in cents per MWh,
    At(Items<Cents>),
    /// the flow of each border, in MW,
    Flows(Items<i64>),
    /// and what each order runs, in MW.
    Mws(Items<u32>),
    /// An operator in the run.
    Operator(MoneyLine),
    /// A provider in the run.
    Provider(AmountLine),
    /// The end of the block of the run of this number.
    End(u32),
    /// An operator over all published runs.
    TotalOperator(MoneyLine),
    /// A provider over all published runs.
    TotalProvider(AmountLine),
    /// How many runs are published, and how many are not.
    Done(u32, u32),
}

/// The first word of a line.
#[derive(Clone, Copy, Debug, Drop, PartialEq, Eq)]
pub enum Keyword {
    /// `mari`
    Mari,
    /// `run`
    Run,
    /// `welfare`
    Welfare,
    /// `zone`
    Zone,
    /// `border`
    Border,
    /// `bid`
    Bid,
    /// `demand`
    Demand,
    /// `tree`
    Tree,
    /// `branch`
    Branch,
    /// `bound`
    Bound,
    /// `cut`
    Cut,
    /// `conflict`
    Conflict,
    /// `at`
    At,
    /// `flows`
    Flows,
    /// `mws`
    Mws,
    /// `operator`
    Operator,
    /// `provider`
    Provider,
    /// `end`
    End,
    /// `total-operator`
    TotalOperator,
    /// `total-provider`
    TotalProvider,
    /// `done`
    Done,
}
