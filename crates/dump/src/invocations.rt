ghost use Rattle.std.specs.Prelude.{◌≡◌, ◌++◌, OnOk, Some};
ghost use Rattle.codec.specs.Times.{stamp_if};
ghost use Rattle.codec.specs.Invocations.{requested};
ghost use Rattle.codec.specs.InvocationReading.{request_in};
ghost use Rattle.dump.specs.Lines.{optional_time_text, request_line, invocation_line};

use crate::records::{FaultLine, TimeText};
use codec::invocation::{Invocation, read_invocation};
use codec::time::Time;
use script::hexadecimal::Hexadecimal;
use script::output::say;
use std::alloc::AllocError;
use std::fmt;

// A time that may be absent, printed as its three numbers or as none.
#[derive(Clone, Copy)]
struct OptionalTime(Option<Time>);

impl fmt::Display for OptionalTime {
    ghost output = { λ t. Some (optional_time_text (stamp_if t.0)) };

    fn fmt<W: fmt::Write>(&self, f: &mut fmt::Formatter<W>) -> fmt::Result {
        match self.0 {
            Some(time) => write!(f, "{}", TimeText(time)),
            None => write!(f, "none"),
        }
    }
}

// An invocation, printed as the line of what it asks.
#[derive(Clone, Copy)]
struct RequestLine(Invocation);

impl fmt::Display for RequestLine {
    ghost output = { λ l. Some (request_line (requested l.0)) };

    fn fmt<W: fmt::Write>(&self, f: &mut fmt::Formatter<W>) -> fmt::Result {
        match self.0 {
            Invocation::Start {
                id,
                quality,
                start,
                stop,
            } => {
                let quality = u8::from(quality);
                let start = OptionalTime(start);
                let stop = OptionalTime(stop);
                writeln!(
                    f,
                    "START id {id} quality {quality} start {start} stop {stop}"
                )
            }
            Invocation::Stop { id } => writeln!(f, "STOP id {id}"),
            Invocation::Bind {
                id,
                version,
                identifier,
            } => {
                let identifier = Hexadecimal(identifier.octets());
                writeln!(f, "BIND id {id} version {version} identifier {identifier}")
            }
            Invocation::Unbind { id, reason } => {
                let reason = u8::from(reason);
                writeln!(f, "UNBIND id {id} reason {reason}")
            }
            Invocation::PeerAbort { diagnostic } => {
                writeln!(f, "PEER-ABORT diagnostic {diagnostic}")
            }
        }
    }
}

// The line of an invocation: what it asks, or its fault.
pub fn say_invocation(out: &mut Vec<u8>, octets: &[u8]) -> Result<(), AllocError>
    ensures { OnOk result (out.new.items ≡ out.old.items ++ invocation_line (request_in octets.now)) }
{
    match read_invocation(octets) {
        Ok(invocation) => say(out, RequestLine(invocation)),
        Err(fault) => say(out, FaultLine(fault)),
    }
}
