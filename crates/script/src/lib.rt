#![tactic(auto)]

pub mod arguments;
pub mod calls;
pub mod complaint;
mod cut;
pub mod hexadecimal;
pub mod lines;
pub mod number;
pub mod output;
pub mod played;
pub mod run;
pub mod words;
