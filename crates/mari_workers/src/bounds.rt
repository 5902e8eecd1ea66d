//! What was found at the branches of a tree.

use mari_market::TreeItem;
use mari_units::Memory;
use std::alloc::Global;

/// The bounds of a tree's branches, in quarter-cents and in preorder: of those that a walk has done, and of those that
/// are left, the next at the end.
///
/// They show which branches are worth another look. No promise rests on them.
#[derive(Drop)]
pub(crate) struct BranchBounds {
    done: Vec<u64>,
    left: Vec<u64>,
}

impl BranchBounds {
    /// No bound is known.
    pub(crate) fn none(alloc: Global) -> BranchBounds {
        BranchBounds {
            done: Vec::new(alloc),
            left: Vec::new(alloc),
        }
    }

    /// The bounds of a tree's branches, by the keys of its nodes in preorder: the key of a branch's closed child, which
    /// stands next to it, is what was found at the branch.
    pub(crate) fn of(
        alloc: Global,
        tree: &[TreeItem],
        keys: Result<Vec<u64>, Memory>,
    ) -> Result<BranchBounds, Memory> {
        let keys = keys?;
        let mut bounds = BranchBounds::none(alloc);
        for (item, key) in tree.iter().zip(keys.iter().skip(1)) {
            if let TreeItem::Branch = item {
                bounds.left.push(*key)?;
            }
        }
        bounds.left.reverse();
        Ok(bounds)
    }

    /// The bound of the next branch, or 0 where it isn't known.
    pub(crate) fn take_next(&mut self) -> u64 {
        self.left.pop().unwrap_or(0)
    }

    /// The next branch is done.
    pub(crate) fn pass(&mut self) -> Result<(), Memory> {
        if let Some(bound) = self.left.pop() {
            self.done.push(bound)?;
        }
        Ok(())
    }

    /// A branch more is done, with this bound.
    pub(crate) fn add(&mut self, bound: u64) -> Result<(), Memory> {
        self.done.push(bound)?;
        Ok(())
    }

    /// All branches are left again.
    pub(crate) fn rewind(&mut self) -> Result<(), Memory> {
        while let Some(bound) = self.done.pop() {
            self.left.push(bound)?;
        }
        Ok(())
    }
}
