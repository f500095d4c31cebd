//! What the provider does, what its ledger keeps, and what holds in every history: definitions in specs/,
//! and theorems about them, each in the contract of a function here.

#![tactic(auto)]

pub mod claims;
pub mod liveness;
pub mod worked;
