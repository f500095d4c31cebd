//! The provider end of one Return All Frames service instance in complete online delivery, over any two queues.

#![tactic(auto)]

pub mod answer;
pub mod phase;
pub mod provider;
pub mod selection;
pub mod session;
pub mod settings;
pub mod transfer_buffer;
