//! What is printed of several quarter hours as one market.

use crate::blocks::{Case, ONE_BLOCK, PAYING_BLOCK};
use crate::folder::books;
use crate::same::same;
use mari_blocks::{BlockBook, JointText, clear_joint};
use mari_workers::Alone;
use std::alloc::Global;
use std::test::Fail;

/// What is printed of a case that is cleared within a budget of nodes.
fn text_in(alloc: Global, case: &Case, nodes: u32) -> Result<JointText, Fail> {
    let books = books(alloc, &case.folder)?;
    if case.blocks.len() > 1_000
        || case.first > case.last
        || case.last > 400
        || nodes == 0
        || nodes > 50_000
    {
        return Err("the case is one of a joint market".into());
    }
    let (bids, links) = (&books.bids, &books.links);
    let blocks = BlockBook::read(alloc, case.blocks, bids, links, case.first, case.last)?;
    let text = clear_joint(
        alloc, &books, &blocks, case.first, case.last, nodes, &mut Alone,
    );
    drop(blocks);
    drop(books);
    Ok(text?)
}

const AT_A_LOSS: &[u8] = b"blocks 1 2 published\nwelfare 799712000\n\
    quarter 1\nzone Z 50.00 50.00 50.00 1\nbid x1 0\nbid p1 40\ndemand 1 40\n\
    quarter 2\nzone Z 20.00 20.00 20.00 2\nbid x2 0\nbid p2 40\ndemand 1 40\n\
    tree 3\nbranch\nbound ";

const PAYING: &[u8] = b"blocks 1 2 published\nwelfare 799712000\n\
    quarter 1\nzone Z 50.00 50.00 50.00 1\nbid x1 20\nbid p1 20\ndemand 1 40\n\
    quarter 2\nzone Z 30.00 30.00 30.00 2\nbid x2 20\nbid p2 20\ndemand 1 40\n\
    tree ";

#[test]
fn the_text_has_a_part_for_each_quarter(rt: HostRuntime) -> Result<(), Fail> {
    for (case, begins) in &[(ONE_BLOCK, AT_A_LOSS), (PAYING_BLOCK, PAYING)] {
        let text = text_in(rt.alloc(), case, 3)?;
        assert!(rt; text.published);
        let bytes = text.text.as_slice();
        assert!(rt; bytes.starts_with(*begins));
        assert!(rt; bytes.ends_with(b"\nend\n"));
    }
    Ok(())
}

#[test]
fn a_budget_below_the_search_tree_publishes_nothing(rt: HostRuntime) -> Result<(), Fail> {
    let text = text_in(rt.alloc(), &ONE_BLOCK, 2)?;
    assert!(rt; !text.published);
    same(
        &rt,
        text.text.as_slice(),
        b"blocks 1 2 unpublished 1\n".as_slice(),
    );
    Ok(())
}
