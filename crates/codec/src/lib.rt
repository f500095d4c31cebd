// The octets between receiver, provider and user: times, records and invocations, written and read.
#![tactic(auto)]

pub(crate) mod blocks;
pub mod fault;
pub mod invocation;
pub mod octet_value;
pub(crate) mod position;
pub mod record;
pub mod time;
