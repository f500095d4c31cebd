// The laws of times, records and invocations: each is the contract of a function.
#![tactic(auto)]

pub mod laws;
