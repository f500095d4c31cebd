ghost use Rattle.std.specs.Prelude.{◌≡◌, []};
ghost use Rattle.codec.specs.InvocationReading.{request_in};
ghost use Rattle.codec.specs.Invocations.{requested, named};
ghost use Rattle.histories.specs.Invocations.{lost, table, by_cell, by_reading, start_by, bind_by, invoke_by, after_unbind};
ghost use Rattle.histories.specs.Sessions.{unbound, ready, active, to_phase, holding};
ghost use Rattle.provider.specs.Answers.{invocation_answer, refusal_answer};
ghost use Rattle.provider.specs.Invoking.{fault_outcome, Performs, Unopened};
ghost use Rattle.provider.specs.Selections.{phase_of, held_selection};
ghost use Rattle.provider.specs.Sessions.{settings_of, session_of};

use super::Session;
use crate::answer::{InvocationRefusal, Performed};
use crate::phase::Phase;
use crate::selection::Selection;
use codec::invocation::{Identifier, Invocation, InvocationFault, UnbindReason, read_invocation};
use codec::record::ProductionStatus;

// What a call leaves as it was stands by each (`Unopened`): no invariant can speak of before and after.
impl Session {
    // Discards the transfer buffer and ends the association; answers how many accepted records are lost.
    fn discard(&mut self) -> usize
        ensures lost { result ≡ lost (session_of self.old) }
        ensures session { session_of self.new ≡ to_phase unbound (holding [] (session_of self.old)) }
        ensures kept { Unopened self.old self.new }
    {
        let lost = self.buffer.accepted;
        self.buffer.clear();
        self.phase = Phase::Unbound;
        lost
    }

    // A START sets the selection and clears the end mark; what the transfer buffer has it keeps.
    #[tactic(auto, unfolding(histories::specs::Invocations::start_by))]
    fn start(&mut self, id: u16, selection: Selection) -> Result<Performed, InvocationFault>
        ensures performs { Performs result (start_by (session_of self.old) active id (held_selection selection)) self.old self.new }
        ensures kept { Unopened self.old self.new }
    {
        if self.production == ProductionStatus::Halted {
            return Err(InvocationFault::OutOfService);
        }
        if selection.is_empty_span() {
            return Err(InvocationFault::InvalidStopTime);
        }
        self.phase = Phase::Active;
        self.selection = selection;
        self.end_mark = false;
        Ok(Performed::Started { id })
    }

    // A BIND brings the provider's identifier, and its version or a higher one.
    #[tactic(auto, unfolding(histories::specs::Invocations::bind_by))]
    fn bind(
        &mut self,
        id: u16,
        version: u8,
        identifier: Identifier,
    ) -> Result<Performed, InvocationFault>
        ensures performs { Performs result (bind_by (settings_of self.old.settings) (session_of self.old) ready id version (named identifier)) self.old self.new }
        ensures kept { Unopened self.old self.new }
    {
        if identifier != self.settings.identifier {
            return Err(InvocationFault::AccessDenied);
        }
        if version < self.settings.version {
            return Err(InvocationFault::VersionNotSupported);
        }
        self.phase = Phase::Ready;
        Ok(Performed::Bound {
            id,
            version: self.settings.version,
        })
    }

    // Phase and operation together decide: this table is the whole decision, and is kept in one piece.
    #[tactic(auto, unfolding(histories::specs::Invocations::table))]
    fn perform(&mut self, invocation: Invocation) -> Result<Performed, InvocationFault>
        ensures performs { Performs result (by_cell (settings_of self.old.settings) (session_of self.old) (requested invocation) (table (session_of self.old).phase (requested invocation))) self.old self.new }
        ensures kept { Unopened self.old self.new }
    {
        match (self.phase, invocation) {
            (
                Phase::Unbound,
                Invocation::Bind {
                    id,
                    version,
                    identifier,
                },
            ) => self.bind(id, version, identifier),
            (Phase::Unbound, _) => Err(InvocationFault::NoAssociation),
            (
                Phase::Ready,
                Invocation::Start {
                    id,
                    quality,
                    start,
                    stop,
                },
            ) => self.start(
                id,
                Selection {
                    quality,
                    start,
                    stop,
                },
            ),
            (Phase::Ready, Invocation::Unbind { id, reason }) => {
                self.phase = after_unbind(reason);
                Ok(Performed::Unbound { id })
            }
            (Phase::Active, Invocation::Stop { id }) => {
                self.phase = Phase::Ready;
                Ok(Performed::Stopped { id })
            }
            (Phase::Ready | Phase::Active, Invocation::PeerAbort { .. }) => Ok(
                Performed::Aborted {
                    lost: self.discard(),
                },
            ),
            (Phase::Ready | Phase::Active, _) => Err(InvocationFault::ProtocolError),
            (Phase::Closed, _) => Err(InvocationFault::Closed),
        }
    }

    // Reads an invocation and performs it; the reader's fault is passed up whole.
    fn attempt(&mut self, octets: &[u8]) -> Result<Performed, InvocationFault>
        ensures performs { Performs result (by_reading (settings_of self.old.settings) (session_of self.old) (request_in octets.now)) self.old self.new }
        ensures kept { Unopened self.old self.new }
    {
        let invocation = read_invocation(octets)?;
        self.perform(invocation)
    }

    // The answer to a fault; the two that end an association discard the transfer buffer.
    fn refuse(&mut self, fault: InvocationFault) -> InvocationRefusal
        ensures answer { refusal_answer result ≡ (fault_outcome (session_of self.old) fault).answer }
        ensures session { session_of self.new ≡ (fault_outcome (session_of self.old) fault).session }
        ensures kept { Unopened self.old self.new }
    {
        match fault {
            InvocationFault::Closed => InvocationRefusal::Closed,
            InvocationFault::Undecodable(fault) => match self.phase {
                Phase::Unbound => InvocationRefusal::Undecodable { fault, lost: 0 },
                Phase::Closed => InvocationRefusal::Closed,
                Phase::Ready | Phase::Active => InvocationRefusal::Undecodable {
                    fault,
                    lost: self.discard(),
                },
            },
            InvocationFault::ProtocolError => InvocationRefusal::ProtocolError {
                lost: self.discard(),
            },
            InvocationFault::AccessDenied => InvocationRefusal::AccessDenied,
            InvocationFault::VersionNotSupported => InvocationRefusal::VersionNotSupported,
            InvocationFault::InvalidStopTime => InvocationRefusal::InvalidStopTime,
            InvocationFault::OutOfService => InvocationRefusal::OutOfService,
            InvocationFault::NoAssociation => InvocationRefusal::NoAssociation,
        }
    }

    // Does what an invocation of any octets asks, or refuses it.
    #[tactic(auto, unfolding(histories::specs::Invocations::invoke_by))]
    pub(crate) fn invoke(&mut self, octets: &[u8]) -> Result<Performed, InvocationRefusal>
        ensures answer { invocation_answer result ≡ (invoke_by (settings_of self.old.settings) (session_of self.old) octets.now).answer }
        ensures session { session_of self.new ≡ (invoke_by (settings_of self.old.settings) (session_of self.old) octets.now).session }
        ensures kept { Unopened self.old self.new }
    {
        // No `map_err`: it is not proved what a closure that may change `self` leaves of it.
        match self.attempt(octets) {
            Ok(performed) => Ok(performed),
            Err(fault) => Err(self.refuse(fault)),
        }
    }
}

// UNBIND with reason end closes the provider.
fn after_unbind(reason: UnbindReason) -> Phase
    ensures { phase_of result ≡ after_unbind reason }
{
    match reason {
        UnbindReason::End => Phase::Closed,
        _ => Phase::Unbound,
    }
}
