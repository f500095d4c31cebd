ghost use Rattle.std.specs.Prelude.{◌≡◌};
ghost use Rattle.codec.specs.declared.invocation.InvocationFault.TheVariants.{Undecodable};
ghost use Rattle.codec.specs.InvocationReading.{request_in, requested_or, decoded};

use super::{Invocation, InvocationFault};
use crate::fault::{Fault, FaultKind};
use crate::position::Position;

// The two octets of an invocation's mark, and the numbers of the operations.
const MARK_HIGH: u8 = 0x49;

const MARK_LOW: u8 = 0x56;

const START: u8 = 0;

const STOP: u8 = 2;

const BIND: u8 = 100;

const UNBIND: u8 = 102;

const PEER_ABORT: u8 = 104;

// Mark, operation and invoke-ID; a PEER-ABORT has no invoke-ID.
const HEADER_LENGTH: usize = 5;

const ABORT_HEADER_LENGTH: usize = 3;

// The invocation that the octets are, taken apart by its leading octets: mark, operation, invoke-ID and the rest.
#[tactic(auto, using(crate::proofs::InvocationArms::start_arm, crate::proofs::InvocationArms::stop_arm, crate::proofs::InvocationArms::bind_arm, crate::proofs::InvocationArms::unbind_arm, crate::proofs::InvocationArms::abort_arm), unfolding(crate::specs::InvocationReading::request_in))]
pub fn read_invocation(octets: &[u8]) -> Result<Invocation, Fault>
    ensures { requested_or result ≡ request_in octets.now }
{
    let start = Position {
        input: octets,
        place: 0,
    };
    match octets {
        [MARK_HIGH, MARK_LOW, START, high, low, ..] => start
            .after(HEADER_LENGTH)
            .start_body(u16::from_be_bytes([*high, *low])),
        [MARK_HIGH, MARK_LOW, STOP, high, low, ..] => start
            .after(HEADER_LENGTH)
            .stop_body(u16::from_be_bytes([*high, *low])),
        [MARK_HIGH, MARK_LOW, BIND, high, low, ..] => start
            .after(HEADER_LENGTH)
            .bind_body(u16::from_be_bytes([*high, *low])),
        [MARK_HIGH, MARK_LOW, UNBIND, high, low, ..] => start
            .after(HEADER_LENGTH)
            .unbind_body(u16::from_be_bytes([*high, *low])),
        [MARK_HIGH, MARK_LOW, PEER_ABORT, ..] => start.after(ABORT_HEADER_LENGTH).abort_body(),
        [MARK_HIGH, MARK_LOW, START | STOP | BIND | UNBIND, ..]
        | [MARK_HIGH, MARK_LOW]
        | [_]
        | [] => Err(FaultKind::Short.at(octets.len())),
        [MARK_HIGH, MARK_LOW, ..] => Err(FaultKind::Value.at(2)),
        _ => Err(FaultKind::Mark.at(0)),
    }
}

impl From<Fault> for InvocationFault {
    ghost from_gives = { λ fault refusal. refusal ≡ Undecodable fault };

    fn from(fault: Fault) -> InvocationFault {
        InvocationFault::Undecodable(fault)
    }
}

// The invocation that the octets are; a reading fault makes it undecodable, and is passed up whole.
pub fn decode_invocation(octets: &[u8]) -> Result<Invocation, InvocationFault>
    ensures { requested_or result ≡ decoded (request_in octets.now) }
{
    let invocation = read_invocation(octets)?;
    Ok(invocation)
}
