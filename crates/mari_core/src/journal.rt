//! What was done to the nodes of a tree, entry by entry.

/// An entry of a tree's journal: by which actor what was done to which node, and at which cutoff, in quarter-cents.
///
/// The certificate of a closed node stands in the tree and not in the journal.
#[derive(Clone, Copy, Drop)]
pub enum JournalEntry {
    /// The actor took the node.
    Take {
        /// The actor's number.
        actor: u32,
        /// The node's number.
        node: u32,
    },
    /// The node was closed by a certificate.
    Close {
        /// The actor's number.
        actor: u32,
        /// The node's number.
        node: u32,
        /// The cutoff, in quarter-cents.
        cutoff: u64,
    },
    /// The children of the node were made.
    Branch {
        /// The actor's number.
        actor: u32,
        /// The node's number.
        node: u32,
        /// The cutoff, in quarter-cents.
        cutoff: u64,
    },
    /// The node was put back, since the budget has no room for its children.
    Full {
        /// The actor's number.
        actor: u32,
        /// The node's number.
        node: u32,
        /// The cutoff, in quarter-cents.
        cutoff: u64,
    },
    /// The actor gave the node back.
    GiveBack {
        /// The actor's number.
        actor: u32,
        /// The node's number.
        node: u32,
    },
}
