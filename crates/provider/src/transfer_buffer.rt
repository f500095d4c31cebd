ghost use Rattle.std.specs.Prelude.{◌≡◌, ◌≤◌, true, length, take};
ghost use Rattle.std.specs.List.{flat_map};
ghost use Rattle.codec.specs.Records.{encode};
ghost use Rattle.histories.specs.Provider.{most_records};
ghost use Rattle.provider.specs.Buffers.{buffer_octets, records_held, all_well_formed, accepted_count};

pub(crate) mod calls;

// The most records that a transfer buffer has.
pub const MOST_RECORDS: usize = 8;

// The octets of the most records of the longest kind.
pub const BUFFER_OCTETS: usize = 16_488;

// A short record: a frame of up to 243 octets of data. What is short passes through arrays of this size, so that not
// every record costs as much as the longest.
pub const SHORT_RECORD: usize = 256;

// The records that wait to be sent, as the octets that their PDU will have: the first `used` of these. A discard
// tells how many of them were accepted from the receiver. An array with its length, since the provider has no heap.
#[derive(Drop)]
pub struct TransferBuffer {
    pub(crate) octets: [u8; BUFFER_OCTETS],
    pub(crate) count: usize,
    pub(crate) used: usize,
    pub(crate) accepted: usize,
    ghost size: { length octets ≡ buffer_octets },
    ghost within: { used ≤ buffer_octets },
    ghost few: { count ≤ most_records },
    ghost whole: { flat_map encode (records_held octets used) ≡ take used octets },
    ghost well: { all_well_formed (records_held octets used) ≡ true },
    ghost counted: { count ≡ length (records_held octets used) },
    ghost told: { accepted ≡ accepted_count (records_held octets used) },
}
