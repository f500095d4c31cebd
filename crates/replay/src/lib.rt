//! Plays calls on a provider over any two queues and keeps their answers and their account. What is claimed of histories
//! is the contract of the replay.

#![tactic(auto)]

pub mod account;
pub mod answer;
pub mod call;
pub mod playing;
pub mod watcher;
