//! Markets of runs after others, from the pages of a folder of two zones.

ghost use Rattle.std.specs.Prelude.{◌≡◌, ◌≤◌, ◌+◌, [], List, OnOk, length};
ghost use Rattle.mari_remain.specs.Accepted.{IsAccepted};
ghost use Rattle.mari_remain.specs.Blocks.{PastBlock};
ghost use Rattle.mari_remain.specs.FirstBlocks.{StandsFor};

use crate::folder::{Pages, TWO_ZONES, books};
use crate::same::same_in;
use mari_market::Activation;
use mari_remain::{Books, Remaining, RunMarket};
use mari_units::Items;
use mari_welfare::is_feasible;
use std::alloc::Global;
use std::test::Fail;

/// A border of 50 MW there and 20 back; a scheduled run and a direct one of a quarter, and a direct one of the next.
pub(crate) const THREE_RUNS: Pages = Pages {
    borders: b"from,to,limit,back\nA,B,50,20\n",
    bids: b"id,provider,zone,quarter,direction,price,least,greatest,kind\n\
        a1,P1,A,1,up,20.00,0,100,both\nb1,P2,B,1,up,60.00,0,100,both\nb2,P2,B,2,up,60.00,0,9,both\n",
    runs: b"run,quarter,kind,reference\n1,1,scheduled,40.00\n2,1,direct,40.00\n3,2,direct,40.00\n",
    demands: b"run,zone,mw,price\n1,B,80,\n2,B,10,\n",
    ..TWO_ZONES
};

/// Two bids of a group, a child of the first, and a plain bid.
const GATED: Pages = Pages {
    bids: b"id,provider,zone,quarter,direction,price,least,greatest,kind\n\
        i1,P,A,1,up,30.00,40,40,both\ni2,P,A,1,up,35.00,40,40,both\ni3,P,A,1,up,30.00,0,10,both\n\
        u1,P,A,1,up,50.00,0,100,both\n",
    links: b"kind,first,second\ngroup,g,i1\ngroup,g,i2\nchild,i3,i1\n",
    demands: b"run,zone,mw,price\n1,A,40,\n",
    ..THREE_RUNS
};

/// A bid of the first quarter, one of the second that a direct run of it keeps out, and in the third one that needs
/// it, one that it bars, and a plain one.
const LINKED: Pages = Pages {
    bids: b"id,provider,zone,quarter,direction,price,least,greatest,kind\n\
        y,P,A,1,up,10.00,0,10,both\nw,P,A,2,up,10.00,0,10,both\nx,P,A,3,up,20.00,0,10,both\n\
        z,P,A,3,up,15.00,0,10,both\nv,P,A,3,up,50.00,0,100,both\n",
    links: b"kind,first,second\ntechnical,w,y\nneeds,x,y\nbars,z,y\n",
    runs: b"run,quarter,kind,reference\n1,1,scheduled,40.00\n2,1,direct,40.00\n\
        3,2,scheduled,40.00\n4,3,scheduled,40.00\n",
    demands: b"run,zone,mw,price\n1,A,5,\n2,A,5,\n",
    ..THREE_RUNS
};

/// Limits that are stated for the first two runs.
pub(crate) const STATED: Pages = Pages {
    borders: b"from,to\nA,B\n",
    limits: Some(b"run,from,to,limit,back\n2,A,B,30,50\n1,A,B,50,50\n"),
    ..THREE_RUNS
};

/// What a run did: the MW of its orders and the flow over the border, or nothing where it is unpublished.
type Done = Option<(&'static [u32], i64)>;

const CONGESTED: Done = Some((&[50, 30, 80], 50));

/// The number of a bid, and what it offers.
type Offer = (u32, u32);

/// What a folder's first runs did; and what the next run finds: its offers, the limits of the border, how many demands
/// there are, and the group and the parent of the last gate.
struct Case {
    name: &'static str,
    done: &'static [Done],
    offers: &'static [Offer],
    limits: (u32, u32),
    demands: u32,
    last: Option<(Option<u32>, Option<u32>)>,
}

/// Cases of three runs.
const OF_THREE_RUNS: &[Case] = &[
    Case {
        name: "a direct run has what a scheduled one left",
        done: &[CONGESTED],
        offers: &[(0, 50), (1, 70)],
        limits: (0, 70),
        demands: 1,
        last: None,
    },
    Case {
        name: "another quarter has everything",
        done: &[CONGESTED, None],
        offers: &[(2, 9)],
        limits: (50, 20),
        demands: 0,
        last: None,
    },
];

/// Cases of gated bids.
const OF_GATED: &[Case] = &[
    Case {
        name: "gated bids are offered whole",
        done: &[Some((&[0, 0, 0, 40, 40], 0))],
        offers: &[(0, 40), (1, 40), (2, 10), (3, 60)],
        limits: (50, 20),
        demands: 0,
        last: Some((None, Some(0))),
    },
    Case {
        name: "a gated bid isn't offered again, nor one of its group",
        done: &[Some((&[40, 0, 0, 0, 40], 0))],
        offers: &[(2, 10), (3, 100)],
        limits: (50, 20),
        demands: 0,
        last: Some((None, None)),
    },
];

/// Cases of bids with links to an earlier quarter.
const OF_LINKED: &[Case] = &[
    Case {
        name: "a scheduled run of the quarter before keeps no bid out",
        done: &[Some((&[5, 5], 0)), Some((&[0, 0], 0))],
        offers: &[(1, 10)],
        limits: (50, 20),
        demands: 0,
        last: None,
    },
    Case {
        name: "a bid that is needed, by a scheduled run",
        done: &[Some((&[5, 5], 0)), Some((&[0, 0], 0)), None],
        offers: &[(2, 10), (4, 100)],
        limits: (50, 20),
        demands: 0,
        last: None,
    },
    Case {
        name: "a direct run of the quarter before keeps a bid out",
        done: &[Some((&[0, 0], 0)), Some((&[5, 5], 0))],
        offers: &[],
        limits: (50, 20),
        demands: 0,
        last: None,
    },
    Case {
        name: "a bid that is needed, by a direct run",
        done: &[Some((&[0, 0], 0)), Some((&[5, 5], 0)), None],
        offers: &[(2, 10), (4, 100)],
        limits: (50, 20),
        demands: 0,
        last: None,
    },
    Case {
        name: "a bid that is needed, which ran in no run of the quarter before",
        done: &[Some((&[0, 0], 0)), Some((&[0, 0], 0))],
        offers: &[(1, 10)],
        limits: (50, 20),
        demands: 0,
        last: None,
    },
    Case {
        name: "a bid that isn't barred",
        done: &[Some((&[0, 0], 0)), Some((&[0, 0], 0)), None],
        offers: &[(3, 10), (4, 100)],
        limits: (50, 20),
        demands: 0,
        last: None,
    },
];

/// Cases of stated limits.
const OF_STATED: &[Case] = &[
    Case {
        name: "limits stated for the first run",
        done: &[],
        offers: &[(0, 100), (1, 100)],
        limits: (50, 50),
        demands: 1,
        last: None,
    },
    Case {
        name: "limits stated for the second run",
        done: &[CONGESTED],
        offers: &[(0, 50), (1, 70)],
        limits: (0, 100),
        demands: 1,
        last: None,
    },
    Case {
        name: "no limits stated for a run",
        done: &[CONGESTED, None],
        offers: &[(2, 9)],
        limits: (0, 0),
        demands: 0,
        last: None,
    },
];

/// Folders and their cases.
const FOLDERS: &[(Pages, &[Case])] = &[
    (THREE_RUNS, OF_THREE_RUNS),
    (GATED, OF_GATED),
    (LINKED, OF_LINKED),
    (STATED, OF_STATED),
];

/// How many offers there are and the first four, the limits of the only border, how many demands there are, and the
/// last gate.
type Reported = (
    usize,
    [Option<Offer>; 4],
    Option<(u32, u32)>,
    u32,
    Option<(Option<u32>, Option<u32>)>,
);

/// The offer at a place, if there is one.
fn offer_at(made: &RunMarket, place: usize) -> Option<Offer> {
    let number = made.bids.as_slice().get(place)?;
    let order = made.market.orders.as_slice().get(place)?;
    Some((*number, order.greatest))
}

/// The limits of the border, where it is the only one.
fn limits(made: &RunMarket) -> Option<(u32, u32)> {
    match made.market.borders.as_slice() {
        [border] => Some((border.limit, border.back)),
        _ => None,
    }
}

/// The group and the parent of the last gate, if there is one.
fn last(made: &RunMarket) -> Option<(Option<u32>, Option<u32>)> {
    let gate = made.market.gates.as_slice().last()?;
    Some((gate.group, gate.parent))
}

/// What is reported of a run's market.
fn reported(made: &RunMarket) -> Reported {
    let first = [
        offer_at(made, 0),
        offer_at(made, 1),
        offer_at(made, 2),
        offer_at(made, 3),
    ];
    let count = made.bids.as_slice().len();
    (count, first, limits(made), made.demands, last(made))
}

/// The activation of these quantities and flows.
fn activation_of(alloc: Global, mw: &[u32], flow: i64) -> Result<Activation, Fail> {
    let mw = mw.to_vec(alloc)?;
    Ok(Activation {
        mw: Items::of(mw),
        flow: Items::of(vec![in alloc; flow]?),
    })
}

/// Publishes the run that comes next, with an activation.
fn publish(
    alloc: Global,
    books: &Books,
    remaining: &mut Remaining,
    run: u32,
    activation: &Activation,
) -> Result<(), Fail>
    requires accepted { IsAccepted books.now }
    requires there { run ≤ length books.now.runs.runs }
    requires stands { (blocks : List PastBlock) × StandsFor books.now blocks remaining.old × (run ≡ length blocks + 1) }
    ensures { OnOk result ((blocks : List PastBlock) × StandsFor books.now blocks remaining.new × (run + 1 ≡ length blocks + 1)) }
{
    let made = remaining.market_of(alloc, books, run)?;
    if !is_feasible(&made.market, activation) {
        return Err("the activation is feasible".into());
    }
    remaining.after(books, run, &made, activation);
    Ok(())
}

/// Publishes the run that comes next, with the MW of its orders and the flow over the border.
fn publish_mw(
    alloc: Global,
    books: &Books,
    remaining: &mut Remaining,
    run: u32,
    mw: &[u32],
    flow: i64,
) -> Result<(), Fail>
    requires accepted { IsAccepted books.now }
    requires there { run ≤ length books.now.runs.runs }
    requires stands { (blocks : List PastBlock) × StandsFor books.now blocks remaining.old × (run ≡ length blocks + 1) }
    ensures { OnOk result ((blocks : List PastBlock) × StandsFor books.now blocks remaining.new × (run + 1 ≡ length blocks + 1)) }
{
    let activation = activation_of(alloc, mw, flow)?;
    let published = publish(alloc, books, remaining, run, &activation);
    drop(activation);
    published
}

/// Takes what the run did that comes next. One that is unpublished leaves everything as it is.
fn take(
    alloc: Global,
    books: &Books,
    remaining: &mut Remaining,
    run: u32,
    done: Done,
) -> Result<(), Fail>
    requires accepted { IsAccepted books.now }
    requires there { run ≤ length books.now.runs.runs }
    requires stands { (blocks : List PastBlock) × StandsFor books.now blocks remaining.old × (run ≡ length blocks + 1) }
    ensures { OnOk result ((blocks : List PastBlock) × StandsFor books.now blocks remaining.new × (run + 1 ≡ length blocks + 1)) }
{
    match done {
        Some((mw, flow)) => publish_mw(alloc, books, remaining, run, mw, flow),
        None => Ok(()),
    }
}

/// The market of the run after those that did so.
fn market_after(
    alloc: Global,
    books: &Books,
    remaining: &mut Remaining,
    done: &[Done],
) -> Result<RunMarket, Fail>
    requires accepted { IsAccepted books.now }
    requires stands { StandsFor books.now [] remaining.old }
{
    let count = books.runs.runs.as_slice().len();
    let mut run = 1u32;
    for at_run in done {
        if run as usize >= count {
            return Err("there is a run after these".into());
        }
        take(alloc, books, remaining, run, *at_run)?;
        run += 1;
    }
    if run as usize > count {
        return Err("there is a run".into());
    }
    Ok(remaining.market_of(alloc, books, run)?)
}

/// What is reported of the market of the run after those that did so.
fn reported_after(alloc: Global, books: &Books, done: &[Done]) -> Result<Reported, Fail>
    requires { IsAccepted books.now }
{
    let mut remaining = Remaining::start(alloc, books)?;
    let made = market_after(alloc, books, &mut remaining, done);
    drop(remaining);
    let made = made?;
    let reported = reported(&made);
    drop(made);
    Ok(reported)
}

/// What is reported of a case.
fn reported_in(alloc: Global, folder: &Pages, case: &Case) -> Result<Reported, Fail> {
    let books = books(alloc, folder)?;
    let reported = reported_after(alloc, &books, case.done);
    drop(books);
    reported
}

/// What is wanted of it.
fn wanted(case: &Case) -> Reported {
    let offers = case.offers;
    let first = [
        offers.get(0).copied(),
        offers.get(1).copied(),
        offers.get(2).copied(),
        offers.get(3).copied(),
    ];
    (
        offers.len(),
        first,
        Some(case.limits),
        case.demands,
        case.last,
    )
}

#[test]
fn a_run_has_what_those_before_it_left(rt: HostRuntime) -> Result<(), Fail> {
    for (folder, cases) in FOLDERS {
        for case in *cases {
            let reported = reported_in(rt.alloc(), folder, case)?;
            same_in(&rt, case.name, reported, wanted(case));
        }
    }
    Ok(())
}
