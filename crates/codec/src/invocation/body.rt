ghost use Rattle.std.specs.Prelude.{◌≡◌, ◌+◌, ◌≤◌, length};
ghost use Rattle.codec.specs.Times.{stamp_if, stamp_if_or};
ghost use Rattle.codec.specs.Invocations.{named_or, requested};
ghost use Rattle.codec.specs.InvocationReading.{stamp_if_at, stamp_if_length, version_at, identifier_at, ending_at, start_at, stop_at, bind_at, unbind_at, abort_at, requested_or};

use super::{Identifier, Invocation, LONGEST_IDENTIFIER, SHORTEST_IDENTIFIER};
use crate::blocks::block_at;
use crate::fault::{Fault, FaultKind};
use crate::position::Position;
use crate::time::{TIME_LENGTH, Time};

impl Position<'_> {
    // A time that may be absent: an octet 0, or an octet 1 and the time.
    fn optional_time(self) -> Result<Option<Time>, Fault>
        ensures { stamp_if_or result ≡ stamp_if_at self.entry.input.now self.entry.place }
    {
        match self.octet()? {
            0 => Ok(None),
            1 => Ok(Some(self.after(1).time()?)),
            _ => Err(self.wrong_value()),
        }
    }

    fn version(self) -> Result<u8, Fault>
        ensures { result ≡ version_at self.entry.input.now self.entry.place }
    {
        let version = self.octet()?;
        if version < 1 {
            return Err(self.wrong_value());
        }
        Ok(version)
    }

    // An identifier behind its length.
    fn identifier(self) -> Result<Identifier, Fault>
        ensures { named_or result ≡ identifier_at self.entry.input.now self.entry.place }
    {
        let count = self.octet()? as usize;
        if count < SHORTEST_IDENTIFIER || count > LONGEST_IDENTIFIER {
            return Err(self.wrong_value());
        }
        let start = self.place + 1;
        if self.input.len() - start < count {
            return Err(self.short());
        }
        Ok(Identifier::of_octets(block_at(self.input, start, count)))
    }

    // An invocation that ends here: octets from here on are left over.
    fn ending(self, invocation: Invocation) -> Result<Invocation, Fault>
        ensures { requested_or result ≡ ending_at self.entry.input.now self.entry.place (requested invocation) }
    {
        if self.place < self.input.len() {
            return Err(FaultKind::Extra.at(self.place));
        }
        Ok(invocation)
    }

    // The body of a START.
    pub(super) fn start_body(self, id: u16) -> Result<Invocation, Fault>
        ensures { requested_or result ≡ start_at self.entry.input.now self.entry.place id }
    {
        let quality = self.value()?;
        let at_start = self.after(1);
        let start = at_start.optional_time()?;
        let at_stop = at_start.after(optional_time_length(&start));
        let stop = at_stop.optional_time()?;
        let end = at_stop.after(optional_time_length(&stop));
        end.ending(Invocation::Start {
            id,
            quality,
            start,
            stop,
        })
    }

    // STOP has no body.
    pub(super) fn stop_body(self, id: u16) -> Result<Invocation, Fault>
        ensures { requested_or result ≡ stop_at self.entry.input.now self.entry.place id }
    {
        self.ending(Invocation::Stop { id })
    }

    // The body of a BIND.
    pub(super) fn bind_body(self, id: u16) -> Result<Invocation, Fault>
        ensures { requested_or result ≡ bind_at self.entry.input.now self.entry.place id }
    {
        let version = self.version()?;
        let identifier = self.after(1).identifier()?;
        let end = self.after(2 + identifier.octets().len());
        end.ending(Invocation::Bind {
            id,
            version,
            identifier,
        })
    }

    // The body of an UNBIND.
    pub(super) fn unbind_body(self, id: u16) -> Result<Invocation, Fault>
        ensures { requested_or result ≡ unbind_at self.entry.input.now self.entry.place id }
    {
        let reason = self.value()?;
        self.after(1).ending(Invocation::Unbind { id, reason })
    }

    // The body of a PEER-ABORT.
    pub(super) fn abort_body(self) -> Result<Invocation, Fault>
        ensures { requested_or result ≡ abort_at self.entry.input.now self.entry.place }
    {
        let diagnostic = self.octet()?;
        self.after(1).ending(Invocation::PeerAbort { diagnostic })
    }
}

// How many octets a time takes that may be absent.
fn optional_time_length(time: &Option<Time>) -> usize
    ensures { result ≡ stamp_if_length (stamp_if time.now) }
{
    match time {
        Some(_) => 1 + TIME_LENGTH,
        None => 1,
    }
}
