//! Tests of what clears a market: markets themselves, gates, welfare, certificates, the merit order, both solvers of a
//! network, prices, a node, the gain of a raised limit, the machine of a search, the incumbent, the pool, searches on one
//! thread and by several workers, and islands.
//!
//! They call what is public alone, so they stand apart from what they test, which then is proved once.
#![tactic(auto)]

#[cfg(test)]
mod certificates;
#[cfg(test)]
mod cleared_islands;
#[cfg(test)]
mod gains;
#[cfg(test)]
mod gates;
#[cfg(test)]
mod incumbent;
#[cfg(test)]
mod islands;
#[cfg(test)]
mod looking;
#[cfg(test)]
mod machine;
#[cfg(test)]
mod markets;
#[cfg(test)]
mod merit;
#[cfg(test)]
mod node;
#[cfg(test)]
mod prices;
#[cfg(test)]
mod random;
#[cfg(test)]
mod rounding;
#[cfg(test)]
mod same;
#[cfg(test)]
mod searches;
#[cfg(test)]
mod small;
#[cfg(test)]
mod solvers;
#[cfg(test)]
mod tickets;
#[cfg(test)]
mod ties;
#[cfg(test)]
mod walks;
#[cfg(test)]
mod welfare;
