ghost use Rattle.std.specs.Prelude.{◌≡◌, ◌≤◌, [], length, if◌then◌else◌, is_ok};
ghost use Rattle.histories.specs.Calls.{sent, waiting, tick, collect};
ghost use Rattle.histories.specs.Delivery.{send};
ghost use Rattle.histories.specs.Provider.{outcome};
ghost use Rattle.provider.specs.Answers.{tick_answer, collection_answer};
ghost use Rattle.provider.specs.Buffers.{buffer_octets};
ghost use Rattle.provider.specs.States.{state_of, event, Does, ComesTo, copied_into, waiting_answer};

use super::Provider;
use crate::answer::{CollectionRefusal, TickAnswer};
use crate::transfer_buffer::{BUFFER_OCTETS, SHORT_RECORD};
use codec::record::LONGEST_RECORD;
use queue::interface::Queue;
use queue::refusal::Refusal;

impl<F: Queue, T: Queue> Provider<F, T> {
    // Adds the transfer buffer to the transport as one PDU, by way of a local array of so many octets, and empties it;
    // or leaves it where there is no room.
    fn send_by<const SIZE: usize>(&mut self) -> Result<(), Refusal>
        requires holds { self.old.session.buffer.used ≤ SIZE }
        requires within { SIZE ≤ buffer_octets }
        ensures { ComesTo F.Meaning T.Meaning self.old (λ s. send s.session s.transport) (if is_ok result then sent else waiting) self.new }
    {
        let front = self.session.buffer.front::<SIZE>();
        let local = &front[..];
        let used = self.session.buffer.used;
        self.transport.add(&local[..used])?;
        self.session.buffer.clear();
        Ok(())
    }

    // Sends by way of the smallest of three local arrays that holds the PDU, since the whole of an array is copied: one
    // array of the largest size for all of them is too slow.
    pub(crate) fn send(&mut self) -> Result<(), Refusal>
        ensures { ComesTo F.Meaning T.Meaning self.old (λ s. send s.session s.transport) (if is_ok result then sent else waiting) self.new }
    {
        let used = self.session.buffer.used;
        if used <= SHORT_RECORD {
            self.send_by::<SHORT_RECORD>()
        } else if used <= LONGEST_RECORD {
            self.send_by::<LONGEST_RECORD>()
        } else {
            self.send_by::<BUFFER_OCTETS>()
        }
    }

    // A tick of the receiver's clock: while active, records in the transfer buffer grow older, and at the latency
    // limit they are sent.
    pub fn tick(&mut self) -> TickAnswer
        ensures { Does F.Meaning T.Meaning self.old (event tick (tick_answer result) []) self.new }
    {
        if !self.session.is_active() {
            return TickAnswer::Quiet;
        }
        if self.session.buffer.count == 0 {
            return TickAnswer::Quiet;
        }
        let age = self.session.age.saturating_add(1);
        let limit = self.session.settings.latency_limit;
        if age < limit {
            self.session.age = age;
            return TickAnswer::Quiet;
        }
        self.session.age = limit;
        self.send()
            .map_or(TickAnswer::Waiting, |()| TickAnswer::Sent)
    }

    // The length of the oldest PDU that waits in the transport.
    pub fn waiting_length(&mut self) -> Result<usize, CollectionRefusal>
        ensures answer { collection_answer result ≡ waiting_answer (state_of F.Meaning T.Meaning self.old).transport.held }
        ensures kept { state_of F.Meaning T.Meaning self.new ≡ state_of F.Meaning T.Meaning self.old }
    {
        self.transport
            .first_length()
            .map_err(|_| CollectionRefusal::NothingWaits)
    }

    // Copies the oldest PDU that waits in the transport into the front of a buffer, and drops it there.
    pub fn collect(&mut self, out: &mut [u8]) -> Result<usize, CollectionRefusal>
        ensures call { Does F.Meaning T.Meaning self.old (event (collect (length out.old)) (collection_answer result) (outcome (state_of F.Meaning T.Meaning self.old) (collect (length out.old))).copied) self.new }
        ensures buffer { out.new ≡ copied_into (outcome (state_of F.Meaning T.Meaning self.old) (collect (length out.old))).copied out.old }
    {
        let length = self.waiting_length()?;
        if length > out.len() {
            return Err(CollectionRefusal::BufferTooShort);
        }
        // Neither of these refuses, since a PDU waits.
        let _ = self.transport.read_from(0, out);
        let _ = self.transport.drop();
        Ok(length)
    }
}
