ghost use Rattle.std.specs.Prelude.{◌≡◌, ◌≤◌, ◌++◌, ◌∷◌, length};
ghost use Rattle.codec.specs.Blocks.{placed};
ghost use Rattle.codec.specs.Times.{stamp, stamp_octets, two_octets};
ghost use Rattle.codec.specs.Records.{frame, notified, notification_octets, encode, write_answer, buffer_after};

use super::marks::{END_OF_DATA_TYPE, FRAME_MARK, LOSS_TYPE, NOTIFICATION_MARK, STATUS_TYPE};
use super::{
    DATA_LIMIT, FRAME_HEADER_LENGTH, NOTIFICATION_LENGTH, Notification, Quality, WriteRefusal,
};
use crate::blocks::place_block;
use crate::time::{TIME_LENGTH, Time};

// Mark, an octet and a time, with which each record begins.
const FRONT_LENGTH: usize = 3 + TIME_LENGTH;

// Writes a frame to the front of a buffer and leaves the rest; answers the record's length.
#[tactic(auto, using(crate::proofs::RecordsWritten::frame_length, crate::proofs::Writing::too_short, crate::proofs::Writing::fits, crate::proofs::Writing::frame_writable, crate::proofs::Writing::frame_placed))]
pub fn write_frame(
    out: &mut [u8],
    quality: Quality,
    time: Time,
    data: &[u8],
) -> Result<usize, WriteRefusal>
    ensures answer { result ≡ write_answer (length out.old) (frame quality (stamp time) «data».now) }
    ensures buffer { out.new ≡ buffer_after out.old (frame quality (stamp time) «data».now) result }
{
    let data_length = data.len();
    if data_length < 1 || data_length > DATA_LIMIT {
        return Err(WriteRefusal::DataLength);
    }
    let record_length = FRAME_HEADER_LENGTH + data_length;
    if record_length > out.len() {
        return Err(WriteRefusal::BufferTooShort);
    }
    place_front(out, FRAME_MARK, quality.into(), time);
    place_block(out, FRONT_LENGTH, &(data_length as u16).to_be_bytes());
    place_block(out, FRAME_HEADER_LENGTH, data);
    Ok(record_length)
}

// Writes a notification to the front of a buffer and leaves the rest; answers the record's length.
#[tactic(auto, using(crate::proofs::Writing::too_short, crate::proofs::Writing::fits, crate::proofs::Writing::notified_writable, crate::proofs::Writing::notified_length, crate::proofs::Writing::notification_placed))]
pub fn write_notification(out: &mut [u8], notification: Notification) -> Result<usize, WriteRefusal>
    ensures answer { result ≡ write_answer (length out.old) (notified notification) }
    ensures buffer { out.new ≡ buffer_after out.old (notified notification) result }
{
    if NOTIFICATION_LENGTH > out.len() {
        return Err(WriteRefusal::BufferTooShort);
    }
    let (kind, time, value) = notification_fields(notification);
    place_front(out, NOTIFICATION_MARK, kind, time);
    place_block(out, FRONT_LENGTH, &[value]);
    Ok(NOTIFICATION_LENGTH)
}

// Writes the front of a record, its mark, an octet and a time, to the front of a buffer.
fn place_front(out: &mut [u8], mark: u16, octet: u8, time: Time)
    requires { FRONT_LENGTH ≤ length out.old }
    ensures { out.new ≡ placed out.old 0 (two_octets mark ++ (octet ∷ stamp_octets (stamp time))) }
{
    place_block(out, 0, &mark.to_be_bytes());
    place_block(out, 2, &[octet]);
    place_block(out, 3, &time.octets());
}

// The type, the time and the value of a notification.
#[tactic(auto, unfolding(crate::specs::Records::encode))]
fn notification_fields(notification: Notification) -> (u8, Time, u8)
    ensures { encode (notified notification) ≡ notification_octets result.0 (stamp result.1) result.2 }
{
    match notification {
        Notification::LossOfFrameSynchronization(time) => (LOSS_TYPE, time, 0),
        Notification::ProductionStatusChange(status) => (
            STATUS_TYPE,
            Time::default(),
            status.into(),
        ),
        Notification::EndOfData => (END_OF_DATA_TYPE, Time::default(), 0),
    }
}
