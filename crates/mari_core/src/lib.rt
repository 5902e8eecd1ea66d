//! The pure search machine of branch and bound: what actors do, in any order, to an incumbent and to a tree of nodes.
//!
//! It stands on markets and on prefixes of gates. `Search` carries the promise: whatever list of events leads to it,
//! its facts hold; and where every node is branched or closed, `finish` gives an optimal activation with a tree that
//! shows it.
#![tactic(auto)]

mod event;
mod growth;
mod history;
mod journal;
mod laws;
mod node;
mod preorder;
mod search;

pub use event::{Event, FinishFault, ReplayFault, StepFault};
pub use growth::{Growth, closing_leaf};
pub use history::replay;
pub use journal::JournalEntry;
pub use laws::facts_are_kept;
pub use node::{Node, NodeState};
pub use search::{Actor, Search};
