#![tactic(auto)]

pub mod carry;
pub mod interface;
pub mod lent;
pub mod meaning;
pub mod refusal;
