ghost use Rattle.std.specs.Prelude.{◌≤◌, length};

use crate::time::{TIME_LENGTH, Time};

mod count;
mod marks;
mod read;
mod reader;
mod values;
mod write;

pub use count::record_count;
pub use read::{one_record, record_content};
pub use write::{write_frame, write_notification};

// The longest data of a frame; the shortest is one octet.
pub const DATA_LIMIT: usize = 2048;

// A frame before its data: mark, quality, time, data length.
pub const FRAME_HEADER_LENGTH: usize = TIME_LENGTH + 5;

// A notification: mark, type, time, value.
pub const NOTIFICATION_LENGTH: usize = TIME_LENGTH + 4;

// A frame with the longest data.
pub const LONGEST_RECORD: usize = FRAME_HEADER_LENGTH + DATA_LIMIT;

// What the receiver found of a frame.
#[derive(Clone, Copy, Debug, PartialEq, Eq)]
pub enum Quality {
    Good,
    Erred,
    Undetermined,
}

// Whether the station produces frames.
#[derive(Clone, Copy, Debug, PartialEq, Eq)]
pub enum ProductionStatus {
    Running,
    Interrupted,
    Halted,
}

// What a notification tells.
#[derive(Clone, Copy, Debug, PartialEq, Eq)]
pub enum Notification {
    LossOfFrameSynchronization(Time),
    ProductionStatusChange(ProductionStatus),
    EndOfData,
}

// What a record says; of a frame's data, which follow its header, the length.
#[derive(Clone, Copy, Debug, PartialEq, Eq)]
pub enum RecordContent {
    Frame {
        quality: Quality,
        time: Time,
        data_length: u16,
    },
    Notification(Notification),
}

// Why a record is not written.
#[derive(Clone, Copy, Debug, PartialEq, Eq)]
pub enum WriteRefusal {
    DataLength,
    BufferTooShort,
}

// A record as a part of its PDU, with the place at which it begins.
#[derive(Clone, Copy)]
pub struct RecordPart<'a> {
    pub octets: &'a [u8],
    pub place: usize,
}

// Stands over a PDU and hands out its records, one after the other.
#[derive(Drop)]
pub struct RecordReader<'a> {
    pdu: &'a [u8],
    place: usize,
    ghost within: { place ≤ length pdu.now },
}
