ghost use Rattle.std.specs.Prelude.{◌≡◌, ◌+◌, ◌<◌, ◌≤◌, [], ◌++◌, length, take, drop, if◌then◌else◌, Some};
ghost use Rattle.codec.specs.Blocks.{placed};
ghost use Rattle.codec.specs.RecordReading.{said, content_if, one_record};
ghost use Rattle.histories.specs.Provider.{most_records};
ghost use Rattle.provider.specs.Buffers.{accepted_content, buffer_octets, record_list};
ghost use Rattle.provider.specs.Held.{buffer_records};

use super::{BUFFER_OCTETS, TransferBuffer};
use codec::record::{Notification, RecordContent};

// How many accepted records a record of this content is: end of data is none.
fn accepted_weight(content: &RecordContent) -> usize
    ensures { result ≡ (if accepted_content (said content.now) then 1 else 0) }
{
    match content {
        RecordContent::Notification(Notification::EndOfData) => 0,
        _ => 1,
    }
}

// Writes octets from a place on, and leaves the rest. Codec has the same for itself; as a public call it could not
// require that the octets fit, since no public call requires anything.
fn write_at(out: &mut [u8], place: usize, octets: &[u8])
    requires { place + length octets.now ≤ length out.old }
    ensures { out.new ≡ placed out.old place octets.now }
{
    out[place..place + octets.len()].copy_from_slice(octets);
}

impl TransferBuffer {
    // None held. Written out, since what is derived would not prove the invariants.
    #[tactic(auto, using(crate::proofs::Buffers::none_held))]
    pub(crate) fn new() -> TransferBuffer
        ensures none { buffer_records result ≡ [] }
        ensures count { result.count ≡ 0 }
    {
        TransferBuffer {
            octets: [0; BUFFER_OCTETS],
            count: 0,
            used: 0,
            accepted: 0,
        }
    }

    // Puts a record, given by its octets and its content, behind those that are there.
    pub(crate) fn push(&mut self, octets: &[u8], content: &RecordContent)
        requires room { self.old.count < most_records }
        requires one { Some (said content.now) ≡ content_if (one_record octets.now) }
        ensures more { buffer_records self.new ≡ buffer_records self.old ++ record_list (one_record octets.now) }
        ensures count { self.new.count ≡ self.old.count + 1 }
    {
        let used = self.used;
        write_at(&mut self.octets, used, octets);
        self.used = used + octets.len();
        self.count = self.count + 1;
        self.accepted = self.accepted + accepted_weight(content);
    }

    // The first octets, as an array of their own.
    pub(crate) fn front<const SIZE: usize>(&self) -> [u8; SIZE]
        requires { SIZE ≤ buffer_octets }
        ensures { result ≡ take SIZE self.now.octets }
    {
        *self.octets.first_chunk::<SIZE>().unwrap()
    }

    // Takes all records out.
    #[tactic(auto, using(crate::proofs::Buffers::none_held))]
    pub(crate) fn clear(&mut self)
        ensures none { buffer_records self.new ≡ [] }
        ensures count { self.new.count ≡ 0 }
    {
        self.count = 0;
        self.used = 0;
        self.accepted = 0;
    }
}
