//! Blocks of bids, and several quarter hours as one market: what is refused, and what the market has.

ghost use Rattle.std.specs.Prelude.{IfOk};
ghost use Rattle.mari_market.specs.Market.{IsValid};
ghost use Rattle.mari_remain.specs.Accepted.{IsAccepted};

use crate::folder::{ONE_ZONE, Pages, books};
use crate::same::same;
use mari_blocks::{BlockBook, Joint, JointFault, joint_market};
use mari_market::{Cleared, Clearing, Order, Side};
use mari_remain::Books;
use mari_rows::BookFault;
use mari_units::{Cents, Refusal};
use mari_workers::search_alone;
use std::alloc::Global;
use std::test::Fail;

/// Two bids of 20 MW or nothing, in two quarters, and a plain one beside each; in a third quarter a bid of its own.
pub(crate) const PAIR: Pages = Pages {
    bids: b"id,provider,zone,quarter,direction,price,least,greatest,kind\n\
        x1,P,Z,1,up,30.00,20,20,both\nx2,P,Z,2,up,30.00,20,20,both\n\
        p1,P,Z,1,up,50.00,0,100,both\np2,P,Z,2,up,20.00,0,100,both\nq,P,Z,3,up,20.00,0,100,both\n",
    runs: b"run,quarter,kind,reference\n1,1,scheduled,40.00\n2,2,scheduled,70.00\n",
    demands: b"run,zone,mw,price\n1,Z,40,\n2,Z,40,\n",
    ..ONE_ZONE
};

/// A group of one, a child with its parent, and a bid of the next quarter that needs one of this.
const FAMILY: Pages = Pages {
    bids: b"id,provider,zone,quarter,direction,price,least,greatest,kind\n\
        g1,P,Z,1,up,30.00,0,20,both\nc1,P,Z,1,up,30.00,0,20,both\np1,P,Z,1,up,30.00,0,20,both\n\
        y,P,Z,1,up,10.00,0,10,both\nx,P,Z,2,up,20.00,0,10,both\nz,P,Z,3,up,20.00,0,10,both\n",
    links: b"kind,first,second\ngroup,g,p1\ngroup,h,g1\nneeds,x,y\n",
    runs: b"run,quarter,kind,reference\n1,1,scheduled,40.00\n2,2,scheduled,40.00\n3,3,scheduled,50.00\n",
    demands: b"run,zone,mw,price\n",
    ..ONE_ZONE
};

/// A parent and its child, in the first quarter.
const CHILD: Pages = Pages {
    links: b"kind,first,second\nchild,c1,g1\n",
    ..FAMILY
};

fn at(line: u32, number: u8) -> BookFault {
    BookFault::At { line, number }
}

/// Why a page of blocks of the first two quarters is refused, if it is.
fn refused(alloc: Global, books: &Books, page: &[u8]) -> Option<BookFault>
    requires { IsAccepted books.now }
{
    if page.len() > 1_000 {
        return None;
    }
    match BlockBook::read(alloc, page, &books.bids, &books.links, 1, 2) {
        Ok(_) => None,
        Err(fault) => Some(fault),
    }
}

/// Why a page of blocks of a folder is refused, if it is.
fn refused_in(alloc: Global, folder: &Pages, page: &[u8]) -> Result<Option<BookFault>, Fail> {
    let books = books(alloc, folder)?;
    let refused = refused(alloc, &books, page);
    drop(books);
    Ok(refused)
}

#[test]
fn each_refusal_of_blocks(rt: HostRuntime) -> Result<(), Fail> {
    let cases: &[(Pages, &[u8], Option<BookFault>)] = &[
        (PAIR, b"block,bid\nb,x1\nb,x2\nc,p1\n", None),
        (PAIR, b"bid,block\nx1,b\n", Some(at(1, 1))),
        (PAIR, b"block,bid\nb,x1\nb\n", Some(at(3, 2))),
        (PAIR, b"block,bid\nb,\xff\n", Some(at(2, 3))),
        (PAIR, b"block,bid\nb,x1\nb b,none\n", Some(at(3, 11))),
        (PAIR, b"block,bid\nb,none\n", Some(at(2, 12))),
        (PAIR, b"block,bid\nb,q\n", Some(at(2, 13))),
        (PAIR, b"block,bid\nb,x1\nc,x1\n", Some(at(3, 14))),
        (FAMILY, b"block,bid\nb,g1\n", Some(at(2, 15))),
        (CHILD, b"block,bid\nb,c1\n", Some(at(2, 15))),
        (CHILD, b"block,bid\nb,g1\n", Some(at(2, 15))),
    ];
    for (folder, page, wanted) in cases {
        let refused = refused_in(rt.alloc(), folder, page)?;
        same(&rt, refused, *wanted);
    }
    Ok(())
}

/// Eight zones, and a scheduled run in each of nine quarters.
const NINE_QUARTERS: Pages = Pages {
    zones: b"zone,operator\nA,T\nB,T\nC,T\nD,T\nE,T\nF,T\nG,T\nH,T\n",
    bids: b"id,provider,zone,quarter,direction,price,least,greatest,kind\n",
    runs: b"run,quarter,kind,reference\n1,1,scheduled,0\n2,2,scheduled,0\n3,3,scheduled,0\n4,4,scheduled,0\n\
        5,5,scheduled,0\n6,6,scheduled,0\n7,7,scheduled,0\n8,8,scheduled,0\n9,9,scheduled,0\n",
    demands: b"run,zone,mw,price\n",
    ..ONE_ZONE
};

/// The order of a bid at `cents` cents per MWh, from its least to its greatest MW, of a gate or none.
fn bid(zone: u32, cents: i64, least: u32, greatest: u32, gate: Option<u32>) -> Order {
    Order {
        zone,
        side: Side::Inject,
        price: Cents(cents),
        least,
        greatest,
        gate,
    }
}

/// A folder whose quarters are cleared as one market.
#[derive(Clone, Copy)]
pub(crate) struct Case {
    /// The pages of the folder.
    pub folder: Pages,
    /// blocks.csv.
    pub blocks: &'static [u8],
    /// The first quarter, from 1.
    pub first: u32,
    /// The last quarter.
    pub last: u32,
}

/// The pair as one block.
pub(crate) const ONE_BLOCK: Case = Case {
    folder: PAIR,
    blocks: b"block,bid\nb,x1\nb,x2\n",
    first: 1,
    last: 2,
};

/// The pair where the plain bid of the second quarter costs 30.00, as the block does, so that this loses in neither.
pub(crate) const PAYING_BLOCK: Case = Case {
    folder: Pages {
        bids: b"id,provider,zone,quarter,direction,price,least,greatest,kind\n\
            x1,P,Z,1,up,30.00,20,20,both\nx2,P,Z,2,up,30.00,20,20,both\n\
            p1,P,Z,1,up,50.00,0,100,both\np2,P,Z,2,up,30.00,0,100,both\n",
        ..PAIR
    },
    ..ONE_BLOCK
};

/// The joint market of quarters of these books, or why there is none.
fn joint_of(alloc: Global, books: &Books, case: &Case) -> Result<Result<Joint, JointFault>, Fail>
    requires { IsAccepted books.now }
    ensures { IfOk result (λ joint. IfOk joint (λ joint. IsValid joint.market)) }
{
    if case.blocks.len() > 1_000 || case.first > case.last || case.last > 400 {
        return Err("the case is one of a joint market".into());
    }
    let page = case.blocks;
    let blocks = BlockBook::read(
        alloc,
        page,
        &books.bids,
        &books.links,
        case.first,
        case.last,
    )?;
    let joint = joint_market(alloc, books, &blocks, case.first, case.last);
    drop(blocks);
    Ok(joint)
}

/// The joint market of a case.
fn joint_in(alloc: Global, case: &Case) -> Result<Result<Joint, JointFault>, Fail>
    ensures { IfOk result (λ joint. IfOk joint (λ joint. IsValid joint.market)) }
{
    let books = books(alloc, &case.folder)?;
    let joint = joint_of(alloc, &books, case);
    drop(books);
    joint
}

/// What the search on one thread publishes of a case.
fn clearing_of(alloc: Global, case: &Case) -> Result<Clearing, Fail> {
    let joint = joint_in(alloc, case)??;
    let cleared = search_alone(alloc, &joint.market, 10_000);
    drop(joint);
    match cleared {
        Cleared::Published(clearing) => Ok(clearing),
        Cleared::Spent(_) | Cleared::Memory => Err("the joint market is published".into()),
    }
}

#[test]
fn a_block_at_a_loss_is_rejected_and_one_that_pays_runs(rt: HostRuntime) -> Result<(), Fail> {
    for (case, mw) in &[
        (ONE_BLOCK, [0, 40, 0, 40, 40, 40]),
        (PAYING_BLOCK, [20, 20, 20, 20, 40, 40]),
    ] {
        let clearing = clearing_of(rt.alloc(), case)?;
        same(&rt, clearing.welfare, 799_712_000);
        same(&rt, clearing.activation.mw.as_slice(), mw.as_slice());
    }
    let rejected = clearing_of(rt.alloc(), &ONE_BLOCK)?;
    same(&rt, rejected.tree.as_slice().len(), 3);
    Ok(())
}

#[test]
fn a_block_shares_a_gate_over_its_quarters(rt: HostRuntime) -> Result<(), Fail> {
    let joint = joint_in(rt.alloc(), &ONE_BLOCK)??;
    let orders = joint.market.orders.as_slice();
    same(&rt, joint.market.zones, 2);
    same(&rt, joint.market.reference, Cents(4_000));
    same(&rt, joint.bids.as_slice(), [0, 2, 1, 3].as_slice());
    same(&rt, joint.demands, 2);
    assert_eq!(rt; orders.len(), 6);
    same(&rt, orders[0], bid(0, 3_000, 20, 20, Some(0)));
    same(&rt, orders[1], bid(0, 5_000, 0, 100, None));
    same(&rt, orders[2], bid(1, 3_000, 20, 20, Some(0)));
    same(&rt, orders[3], bid(1, 2_000, 0, 100, None));
    same(
        &rt,
        (orders[5].zone, orders[5].side, orders[5].greatest),
        (1, Side::Withdraw, 40),
    );
    same(&rt, joint.market.gates.as_slice().len(), 1);
    Ok(())
}

#[test]
fn gates_keep_groups_and_parents_beside_a_block(rt: HostRuntime) -> Result<(), Fail> {
    let case = Case {
        folder: CHILD,
        blocks: b"block,bid\nb,y\nb,p1\n",
        first: 1,
        last: 1,
    };
    let joint = joint_in(rt.alloc(), &case)??;
    let orders = joint.market.orders.as_slice();
    let gates = joint.market.gates.as_slice();
    same(&rt, joint.bids.as_slice(), [0, 1, 2, 3].as_slice());
    assert_eq!(rt; orders.len(), 4);
    same(&rt, orders[2], bid(0, 3_000, 1, 20, Some(2)));
    same(&rt, orders[3], bid(0, 1_000, 1, 10, Some(2)));
    assert_eq!(rt; gates.len(), 3);
    same(&rt, gates[1].parent, Some(0));
    same(&rt, gates[2].parent, None);
    Ok(())
}

#[test]
fn a_block_with_a_bid_that_is_not_available_is_left_out(rt: HostRuntime) -> Result<(), Fail> {
    let case = Case {
        folder: FAMILY,
        blocks: b"block,bid\nb,z\nb,x\n",
        first: 2,
        last: 3,
    };
    let joint = joint_in(rt.alloc(), &case)??;
    same(&rt, joint.bids.as_slice().len(), 0);
    same(&rt, joint.market.gates.as_slice().len(), 0);
    Ok(())
}

/// No blocks in the quarters of a folder from 1 to `last`.
pub(crate) const fn no_blocks(folder: Pages, last: u32) -> Case {
    Case {
        folder,
        blocks: b"block,bid\n",
        first: 1,
        last,
    }
}

#[test]
fn each_refusal_of_a_joint_market(rt: HostRuntime) -> Result<(), Fail> {
    for (case, file, number) in &[
        (no_blocks(PAIR, 3), 6, 16),
        (no_blocks(FAMILY, 4), 6, 16),
        (no_blocks(FAMILY, 2), 5, 18),
        (no_blocks(NINE_QUARTERS, 9), 10, 17),
    ] {
        let refusal = Refusal {
            file: *file,
            line: 1,
            number: *number,
        };
        match joint_in(rt.alloc(), case)? {
            Ok(_) => return Err("there is no joint market".into()),
            Err(fault) => same(&rt, fault, JointFault::Refused(refusal)),
        }
    }
    let joint = joint_in(rt.alloc(), &no_blocks(NINE_QUARTERS, 8))??;
    same(&rt, joint.market.zones, 64);
    Ok(())
}

/// Two blocks over three quarters, which cross: one of the first and the third, the other of the first and the second.
const CROSSING: Case = Case {
    folder: Pages {
        bids: b"id,provider,zone,quarter,direction,price,least,greatest,kind\n\
            a1,P,Z,1,up,30.00,5,5,both\nb1,P,Z,1,up,30.00,6,6,scheduled\n\
            b2,P,Z,2,up,30.00,7,7,both\np,P,Z,2,up,30.00,0,9,both\na3,P,Z,3,up,30.00,0,8,both\n",
        runs: b"run,quarter,kind,reference\n1,1,scheduled,0\n2,1,direct,0\n3,2,scheduled,0\n4,3,scheduled,0\n",
        demands: b"run,zone,mw,price\n2,Z,9,\n4,Z,3,\n1,Z,1,\n4,Z,2,\n",
        ..ONE_ZONE
    },
    blocks: b"block,bid\nb,b2\na,a3\nb,b1\na,a1\n",
    first: 1,
    last: 3,
};

#[test]
fn two_blocks_that_cross_share_a_gate_each(rt: HostRuntime) -> Result<(), Fail> {
    let joint = joint_in(rt.alloc(), &CROSSING)??;
    let orders = joint.market.orders.as_slice();
    same(&rt, joint.bids.as_slice(), [0, 1, 2, 3, 4].as_slice());
    assert_eq!(rt; orders.len(), 8);
    same(&rt, orders[0], bid(0, 3_000, 5, 5, Some(0)));
    same(&rt, orders[1], bid(0, 3_000, 6, 6, Some(1)));
    same(&rt, orders[2], bid(1, 3_000, 7, 7, Some(1)));
    same(&rt, orders[3], bid(1, 3_000, 0, 9, None));
    same(&rt, orders[4], bid(2, 3_000, 1, 8, Some(0)));
    same(&rt, (orders[5].zone, orders[5].greatest), (0, 1));
    same(&rt, (orders[6].zone, orders[6].greatest), (2, 3));
    same(&rt, (orders[7].zone, orders[7].greatest), (2, 2));
    same(&rt, joint.market.gates.as_slice().len(), 2);
    Ok(())
}

#[test]
fn a_block_of_one_bid_or_of_one_quarter_has_a_gate(rt: HostRuntime) -> Result<(), Fail> {
    let one = Case {
        blocks: b"block,bid\nb,p2\n",
        ..ONE_BLOCK
    };
    let quarter = Case {
        blocks: b"block,bid\nb,p1\nb,x1\n",
        ..ONE_BLOCK
    };
    for (case, gates) in &[
        (one, [Some(0), None, Some(1), Some(2)]),
        (quarter, [Some(0), Some(0), Some(1), None]),
    ] {
        let joint = joint_in(rt.alloc(), case)??;
        let orders = joint.market.orders.as_slice();
        for (order, gate) in orders.iter().zip(*gates) {
            same(&rt, order.gate, gate);
        }
        let whole = orders
            .iter()
            .all(|order| order.gate.is_none() || order.least > 0);
        assert!(rt; whole);
    }
    Ok(())
}
