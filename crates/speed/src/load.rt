use codec::record::{FRAME_HEADER_LENGTH, LONGEST_RECORD};

// Frames with data of one length; records for a full transfer buffer; records held in the frame buffer all the time;
// and rounds, of one frame each, in a batch.
#[derive(Clone, Copy)]
pub struct Load {
    pub length: usize,
    pub buffer_size: u32,
    pub held: u32,
    pub rounds: u32,
}

// How many PDUs a transport has place for.
pub const PDUS: usize = 4;

impl Load {
    // The octets of a frame's record.
    pub fn record_length(&self) -> usize {
        self.length.saturating_add(FRAME_HEADER_LENGTH)
    }

    // The records that a frame buffer has place for: those held, and one that comes before another goes.
    pub fn records(&self) -> usize {
        self.held as usize + 2
    }

    // A frame buffer has to take the longest record, whatever comes.
    pub fn longest_record(&self) -> usize {
        LONGEST_RECORD
    }

    // The longest PDU.
    pub fn longest_pdu(&self) -> usize {
        LONGEST_RECORD.saturating_mul(self.buffer_size as usize)
    }
}
