//! Plays an acceptance script: reads its calls, replays them on a provider between two piles of queues, and writes each
//! answer and the account of every record's fate.

#![tactic(auto)]

pub mod account;
pub mod answer;
pub mod call;
pub mod opening;
pub mod play;
pub mod reading;
