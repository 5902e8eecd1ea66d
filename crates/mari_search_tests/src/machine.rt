//! The machine on an indivisible bid of 40 MW that is too large for a demand of 30 MW, beside a plain bid of 100 MW,
//! with values computed by hand.

ghost use Rattle.std.specs.Prelude.{◌≡◌, take, IfOk, [], ◌∷◌};
ghost use Rattle.mari_search_tests.specs.Example.{oversized, first, at_root, at_closed, at_open, all_events, taken_twice};

use crate::same::same;
use crate::small::{Few, few};
use mari_core::{Event, FinishFault, ReplayFault, Search, StepFault, replay};
use mari_market::{
    Activation, Attained, Clearing, Cut, CutSide, Finding, GateInfo, Leaf, Market, Order, PartItem,
    Prefix, Prices, Relaxed, Side, TreeItem,
};
use mari_units::{Cents, Items, Memory};
use std::alloc::Global;
use std::test::Fail;

/// The bid that is too large, the other bid, and the demand.
fn market(alloc: Global) -> Result<Market, Fail>
    ensures { IfOk result (λ m. m ≡ oversized) }
{
    let large = Order {
        zone: 0,
        side: Side::Inject,
        price: Cents(3000),
        least: 40,
        greatest: 40,
        gate: Some(0),
    };
    let other = Order {
        zone: 0,
        side: Side::Inject,
        price: Cents(5000),
        least: 0,
        greatest: 100,
        gate: None,
    };
    let demand = Order {
        zone: 0,
        side: Side::Withdraw,
        price: Cents(9_999_900),
        least: 0,
        greatest: 30,
        gate: None,
    };
    let gate = GateInfo {
        group: None,
        parent: None,
    };
    Ok(Market {
        zones: 1,
        borders: Items::of(Vec::new(alloc)),
        orders: Items::of(vec![in alloc; large, other, demand]?),
        gates: Items::of(vec![in alloc; gate]?),
        reference: Cents(4000),
    })
}

/// The best activation without the large bid.
fn best(alloc: Global) -> Result<Attained, Fail>
    ensures { IfOk result (λ a. a ≡ first) }
{
    let activation = Activation {
        mw: Items::of(vec![in alloc; 0, 30, 30]?),
        flow: Items::of(Vec::new(alloc)),
    };
    Ok(Attained {
        activation,
        welfare: 299_847_000,
    })
}

/// One price in the one zone.
fn price(alloc: Global, cents: i64) -> Result<Prices, Fail>
    ensures { IfOk result (λ p. p.cents ≡ record { 0 = cents } ∷ []) }
{
    Ok(Prices {
        cents: Items::of(vec![in alloc; Cents(cents)]?),
    })
}

/// What is found where the gate is undecided: 30 MW of the large bid would do.
fn found_at_root(alloc: Global) -> Result<Finding, Fail>
    ensures { IfOk result (λ f. f ≡ at_root) }
{
    Ok(Finding::Relaxed(Relaxed {
        potentials: price(alloc, 3000)?,
        bound: 299_907_000,
        best: None,
        conflict: None,
    }))
}

/// What is found where the gate is closed.
fn found_closed(alloc: Global) -> Result<Finding, Fail>
    ensures { IfOk result (λ f. f ≡ at_closed) }
{
    Ok(Finding::Relaxed(Relaxed {
        potentials: price(alloc, 5000)?,
        bound: 299_847_000,
        best: Some(best(alloc)?),
        conflict: None,
    }))
}

/// What is found where it is open: 10 MW too much.
fn found_open(alloc: Global) -> Result<Finding, Fail>
    ensures { IfOk result (λ f. f ≡ at_open) }
{
    Ok(Finding::Empty(Cut {
        side: CutSide::Out,
        zones: Items::of(vec![in alloc; 0]?),
    }))
}

/// The first of the events by which two actors close the search tree.
fn events(alloc: Global, count: usize) -> Result<Vec<Event>, Fail>
    ensures { IfOk result (λ v. v.items ≡ take count all_events) }
{
    let at_root = found_at_root(alloc)?;
    let at_closed = found_closed(alloc)?;
    let at_open = found_open(alloc)?;
    let mut events = vec![in alloc;
        Event::Take { actor: 0, node: 0 },
        Event::Settle {
            actor: 0,
            node: 0,
            finding: at_root,
        },
        Event::Take { actor: 1, node: 1 },
        Event::Take { actor: 0, node: 2 },
        Event::Look { actor: 1 },
        Event::Settle {
            actor: 1,
            node: 1,
            finding: at_closed,
        },
        Event::Settle {
            actor: 0,
            node: 2,
            finding: at_open,
        },
    ]?;
    events.truncate(count);
    Ok(events)
}

/// A new search of two actors within three nodes.
fn new_search<'m>(alloc: Global, market: &'m Market) -> Result<Search<'m>, Fail>
    requires { market.now ≡ oversized }
{
    let first = best(alloc)?;
    Ok(Search::start(alloc, market, 2, first, 3)?)
}

/// The search after the first of the events by which two actors close the search tree.
fn search_after<'m>(alloc: Global, market: &'m Market, count: usize) -> Result<Search<'m>, Fail>
    requires { market.now ≡ oversized }
{
    let events = events(alloc, count)?;
    let first = best(alloc)?;
    Ok(replay(alloc, market, 2, first, 3, events)?)
}

/// The search after the root was settled, within two nodes.
fn small_search<'m>(alloc: Global, market: &'m Market) -> Result<Search<'m>, Fail>
    requires { market.now ≡ oversized }
{
    let events = events(alloc, 2)?;
    let first = best(alloc)?;
    Ok(replay(alloc, market, 2, first, 2, events)?)
}

/// Events of which one takes a node that is taken.
fn events_that_take_twice(alloc: Global) -> Result<Vec<Event>, Fail>
    ensures { IfOk result (λ v. v.items ≡ taken_twice) }
{
    let found = found_at_root(alloc)?;
    Ok(vec![in alloc;
        Event::Take { actor: 0, node: 0 },
        Event::Settle {
            actor: 0,
            node: 0,
            finding: found,
        },
        Event::Take { actor: 1, node: 1 },
        Event::Take { actor: 0, node: 1 },
        Event::Look { actor: 1 },
    ]?)
}

/// Why they are refused.
fn refusal(alloc: Global, market: &Market) -> Result<Option<ReplayFault>, Fail>
    requires { market.now ≡ oversized }
{
    let events = events_that_take_twice(alloc)?;
    let first = best(alloc)?;
    match replay(alloc, market, 2, first, 3, events) {
        Ok(_search) => Ok(None),
        Err(fault) => Ok(Some(fault)),
    }
}

/// Whether the tree has the one bound at 50.00 and the one cut.
fn is_published_tree(tree: &[TreeItem]) -> bool {
    match tree {
        [
            TreeItem::Branch,
            TreeItem::Leaf(Leaf::Bound(prices)),
            TreeItem::Leaf(Leaf::Cut(cut)),
        ] => {
            prices.cents.as_slice() == [Cents(5000)].as_slice()
                && cut.side == CutSide::Out
                && cut.zones.as_slice() == [0].as_slice()
        }
        _ => false,
    }
}

/// The welfare, what each order runs, and whether the tree is the published one.
type Reported = (u64, Few, bool);

fn reported(clearing: &Clearing) -> Reported {
    let mw = few(clearing.activation.mw.as_slice());
    let is_tree = is_published_tree(clearing.tree.as_slice());
    (clearing.welfare, mw, is_tree)
}

/// What is reported of the clearing after all events.
fn finished(alloc: Global, market: &Market) -> Result<Reported, Fail>
    requires { market.now ≡ oversized }
{
    let search = search_after(alloc, market, 7)?;
    let clearing = search.finish(alloc)?;
    let reported = reported(&clearing);
    drop(clearing);
    Ok(reported)
}

/// The first four items of a part of the search tree.
type Part = [Option<PartItem>; 4];

fn item_at(part: &[PartItem], place: usize) -> Option<PartItem> {
    match part.get(place) {
        Some(item) => Some(*item),
        None => None,
    }
}

fn first_items(part: Result<Vec<PartItem>, Memory>) -> Part {
    match part {
        Ok(part) => [
            item_at(&part, 0),
            item_at(&part, 1),
            item_at(&part, 2),
            item_at(&part, 3),
        ],
        Err(_memory) => [None; 4],
    }
}

/// The part of the tree after all events but the last, and why there is no clearing then.
fn unfinished(alloc: Global, market: &Market) -> Result<(Part, Option<FinishFault>), Fail>
    requires { market.now ≡ oversized }
{
    let search = search_after(alloc, market, 6)?;
    let part = first_items(search.part(alloc));
    match search.finish(alloc) {
        Ok(_clearing) => Ok((part, None)),
        Err(fault) => Ok((part, Some(fault))),
    }
}

#[test]
fn two_actors_close_the_tree(rt: HostRuntime) -> Result<(), Fail> {
    let market = market(rt.alloc())?;
    let finished = finished(rt.alloc(), &market);
    drop(market);
    let want = (299_847_000, few(&[0, 30, 30]), true);
    same(&rt, finished?, want);
    Ok(())
}

#[test]
fn a_leaf_that_is_not_closed_is_named(rt: HostRuntime) -> Result<(), Fail> {
    let market = market(rt.alloc())?;
    let unfinished = unfinished(rt.alloc(), &market);
    drop(market);
    let part = [
        Some(PartItem::Branch),
        Some(PartItem::Closed),
        Some(PartItem::Pending),
        None,
    ];
    same(&rt, unfinished?, (part, Some(FinishFault::NotClosed(2))));
    Ok(())
}

#[test]
fn a_node_is_not_taken_twice(rt: HostRuntime) -> Result<(), Fail> {
    let market = market(rt.alloc())?;
    let refusal = refusal(rt.alloc(), &market);
    drop(market);
    let fault = StepFault::NotUntaken;
    same(&rt, refusal?, Some(ReplayFault { place: 4, fault }));
    Ok(())
}

/// Whether a search within two nodes is full, which node waits, and the part of its tree.
fn full(alloc: Global, market: &Market) -> Result<(bool, Option<u32>, Part), Fail>
    requires { market.now ≡ oversized }
{
    let search = small_search(alloc, market)?;
    let part = first_items(search.part(alloc));
    let reported = (search.is_full(), search.untaken(), part);
    drop(search);
    Ok(reported)
}

#[test]
fn children_that_do_not_fit_the_budget_are_not_made(rt: HostRuntime) -> Result<(), Fail> {
    let market = market(rt.alloc())?;
    let full = full(rt.alloc(), &market);
    drop(market);
    let part = [Some(PartItem::Pending), None, None, None];
    same(&rt, full?, (true, Some(0), part));
    Ok(())
}

/// How many gates a prefix decides, if it is there.
fn length_of(prefix: Option<Prefix>) -> Option<u32> {
    match prefix {
        Some(prefix) => Some(prefix.length),
        None => None,
    }
}

/// How many gates nodes 0 and 1 decide, what actors 1 and 2 saw, and whether the search is full.
type Start = ([Option<u32>; 2], [Option<u64>; 2], bool);

fn start_of<'m>(search: &Search<'m>) -> Start {
    let lengths = [
        length_of(search.prefix_of(0)),
        length_of(search.prefix_of(1)),
    ];
    let seen = [search.seen(1), search.seen(2)];
    (lengths, seen, search.is_full())
}

/// What steps give: two by an actor or of a node that isn't there, and one that gives back what isn't taken; one that
/// takes the root, and which node waits then; and two that give it back, and which node waits then.
type Steps = (
    [Result<(), StepFault>; 4],
    Option<u32>,
    [Result<(), StepFault>; 2],
    Option<u32>,
);

fn steps<'m>(search: &mut Search<'m>) -> Steps {
    let takes = [
        search.step(Event::Take { actor: 2, node: 1 }),
        search.step(Event::Take { actor: 1, node: 1 }),
        search.step(Event::GiveBack { actor: 1, node: 0 }),
        search.step(Event::Take { actor: 1, node: 0 }),
    ];
    let taken = search.untaken();
    let returns = [
        search.step(Event::GiveBack { actor: 0, node: 0 }),
        search.step(Event::GiveBack { actor: 1, node: 0 }),
    ];
    (takes, taken, returns, search.untaken())
}

/// What a new search reports, and what steps give then.
fn begun(alloc: Global, market: &Market) -> Result<(Start, Steps), Fail>
    requires { market.now ≡ oversized }
{
    let mut search = new_search(alloc, market)?;
    let start = start_of(&search);
    let steps = steps(&mut search);
    drop(search);
    Ok((start, steps))
}

#[test]
fn a_new_search_refuses_steps_in_order(rt: HostRuntime) -> Result<(), Fail> {
    let market = market(rt.alloc())?;
    let begun = begun(rt.alloc(), &market);
    drop(market);
    let (start, steps) = begun?;
    same(
        &rt,
        start,
        ([Some(0), None], [Some(299_847_000), None], false),
    );
    let takes = [
        Err(StepFault::NoActor),
        Err(StepFault::NoNode),
        Err(StepFault::NotTaken),
        Ok(()),
    ];
    let returns = [Err(StepFault::NotTaken), Ok(())];
    same(&rt, steps, (takes, None, returns, Some(0)));
    Ok(())
}
