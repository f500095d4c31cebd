#![tactic(auto)]

pub mod cell;
pub mod cell_queue;
