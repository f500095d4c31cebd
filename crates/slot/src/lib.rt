#![tactic(auto)]

pub mod note;
pub mod slotted;
