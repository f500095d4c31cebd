ghost use Rattle.std.specs.Prelude.{◌≡◌, ◌≤◌, length};
ghost use Rattle.codec.specs.Limits.{shortest_identifier, longest_identifier};

use crate::fault::Fault;
use crate::time::Time;

mod body;
mod identifiers;
mod read;
mod values;

pub use read::{decode_invocation, read_invocation};

// The shortest and the longest identifier.
pub const SHORTEST_IDENTIFIER: usize = 3;

pub const LONGEST_IDENTIFIER: usize = 16;

// The frames that a START asks for.
#[derive(Clone, Copy, Debug, PartialEq, Eq)]
pub enum RequestedQuality {
    GoodOnly,
    ErredOnly,
    All,
}

// Why a user ends its association.
#[derive(Clone, Copy, Debug, PartialEq, Eq)]
pub enum UnbindReason {
    End,
    Suspend,
    VersionNotSupported,
    Other,
}

// A user's identifier: the first `count` of these octets, an array since this crate takes no memory from the heap.
#[derive(Clone, Copy, Debug)]
pub struct Identifier {
    octets: [u8; LONGEST_IDENTIFIER],
    count: usize,
    ghost held: { (length octets ≡ longest_identifier) × (shortest_identifier ≤ count) × (count ≤ longest_identifier) },
}

// What a user invokes.
#[derive(Clone, Copy, Debug, PartialEq, Eq)]
pub enum Invocation {
    Start {
        id: u16,
        quality: RequestedQuality,
        start: Option<Time>,
        stop: Option<Time>,
    },
    Stop {
        id: u16,
    },
    Bind {
        id: u16,
        version: u8,
        identifier: Identifier,
    },
    Unbind {
        id: u16,
        reason: UnbindReason,
    },
    PeerAbort {
        diagnostic: u8,
    },
}

// Why an invocation is refused.
#[derive(Clone, Copy, Debug, PartialEq, Eq)]
pub enum InvocationFault {
    Closed,
    Undecodable(Fault),
    NoAssociation,
    ProtocolError,
    AccessDenied,
    VersionNotSupported,
    OutOfService,
    InvalidStopTime,
}
