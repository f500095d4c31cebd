ghost use Rattle.std.specs.Prelude.{◌≡◌, ◌+◌, ◌≤◌, length, IfOk};
ghost use Rattle.codec.specs.RecordReading.{said, said_or, said_if, content_or, content_if, size, record_at, one_record, data_length_at, frame_at, loss_at, status_change_at, end_of_data_at, notification_at, content_at};

use super::marks::{END_OF_DATA_TYPE, FRAME_MARK, LOSS_TYPE, NOTIFICATION_MARK, STATUS_TYPE};
use super::{DATA_LIMIT, FRAME_HEADER_LENGTH, NOTIFICATION_LENGTH, Notification, RecordContent};
use crate::fault::{Fault, FaultKind};
use crate::position::Position;
use crate::time::TIME_LENGTH;

impl RecordContent {
    // How many octets the record has.
    pub(crate) fn record_length(&self) -> usize
        ensures { result ≡ size (said self.now) }
    {
        match self {
            RecordContent::Frame { data_length, .. } => FRAME_HEADER_LENGTH + *data_length as usize,
            RecordContent::Notification(_) => NOTIFICATION_LENGTH,
        }
    }
}

// What the record says that the octets begin with.
pub fn record_content(octets: &[u8]) -> Result<RecordContent, Fault>
    ensures { said_or result ≡ content_or (record_at octets.now 0) }
{
    let start = Position {
        input: octets,
        place: 0,
    };
    start.content()
}

// What the record says that the octets are, if they are exactly one.
#[tactic(auto, using(crate::proofs::Contents::none_faulty))]
pub fn one_record(octets: &[u8]) -> Option<RecordContent>
    ensures { said_if result ≡ content_if (one_record octets.now) }
{
    let start = Position {
        input: octets,
        place: 0,
    };
    let Ok(content) = start.content() else {
        return None;
    };
    if content.record_length() != octets.len() {
        return None;
    }
    Some(content)
}

// That the record fits is what one reader hands to the next: it speaks of the answer, and not of the position alone.
impl Position<'_> {
    // A data length, and that so many octets follow it.
    fn data_length(self) -> Result<u16, Fault>
        ensures { result ≡ data_length_at self.entry.input.now self.entry.place }
    {
        let length = self.two_octets()?;
        if length < 1 || length as usize > DATA_LIMIT {
            return Err(self.wrong_value());
        }
        if self.input.len() - self.after(2).place < length as usize {
            return Err(self.short());
        }
        Ok(length)
    }

    // The frame whose mark stands here.
    fn frame(self) -> Result<RecordContent, Fault>
        requires { self.place + 2 ≤ length self.input.now }
        ensures content { said_or result ≡ frame_at self.entry.input.now self.entry.place }
        ensures fits { IfOk result (λ c. self.entry.place + size (said c) ≤ length self.entry.input.now) }
    {
        let quality = self.after(2).value()?;
        let time = self.after(3).time()?;
        let data_length = self.after(3 + TIME_LENGTH).data_length()?;
        Ok(RecordContent::Frame {
            quality,
            time,
            data_length,
        })
    }

    // The notification whose mark stands here.
    fn notification(self) -> Result<RecordContent, Fault>
        requires { self.place + 2 ≤ length self.input.now }
        ensures content { said_or result ≡ notification_at self.entry.input.now self.entry.place }
        ensures fits { IfOk result (λ c. self.entry.place + size (said c) ≤ length self.entry.input.now) }
    {
        let at_type = self.after(2);
        let notification = match at_type.octet()? {
            LOSS_TYPE => {
                let time = self.after(3).time()?;
                self.after(3 + TIME_LENGTH).zero()?;
                Notification::LossOfFrameSynchronization(time)
            }
            STATUS_TYPE => {
                self.after(3).zero_time()?;
                Notification::ProductionStatusChange(self.after(3 + TIME_LENGTH).value()?)
            }
            END_OF_DATA_TYPE => {
                self.after(3).zero_time()?;
                self.after(3 + TIME_LENGTH).zero()?;
                Notification::EndOfData
            }
            _ => return Err(at_type.wrong_value()),
        };
        Ok(RecordContent::Notification(notification))
    }

    // The record here.
    pub(super) fn content(self) -> Result<RecordContent, Fault>
        ensures content { said_or result ≡ content_at self.entry.input.now self.entry.place }
        ensures fits { IfOk result (λ c. self.entry.place + size (said c) ≤ length self.entry.input.now) }
    {
        match self.two_octets()? {
            FRAME_MARK => self.frame(),
            NOTIFICATION_MARK => self.notification(),
            _ => Err(FaultKind::Mark.at(self.place)),
        }
    }
}
