#![tactic(auto)]

mod block;
pub mod memory;
pub mod ring;
