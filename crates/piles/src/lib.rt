//! Piles of queues as a script describes them: their sizes, their memory, and the queues over it.

#![tactic(auto)]

pub mod memory;
pub mod pair;
pub mod pile;
pub mod shape;
#[cfg(test)]
mod tests;
