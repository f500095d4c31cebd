ghost use Rattle.std.specs.Prelude.{◌≡◌, ◌+◌, ◌≤◌, [], length, Some};
ghost use Rattle.codec.specs.Limits.{data_limit};
ghost use Rattle.codec.specs.Records.{frame, notified};
ghost use Rattle.codec.specs.Times.{stamp};
ghost use Rattle.histories.specs.Calls.{acquire, note};
ghost use Rattle.histories.specs.Provider.{admit, receive};
ghost use Rattle.provider.specs.Answers.{reception_answer};
ghost use Rattle.provider.specs.States.{state_of, numbers, event, Does, ComesTo, offering};

use super::Provider;
use crate::answer::ReceptionRefusal;
use crate::transfer_buffer::SHORT_RECORD;
use codec::record::{
    FRAME_HEADER_LENGTH, LONGEST_RECORD, Notification, ProductionStatus, Quality, write_frame,
    write_notification,
};
use codec::time::{Time, TimeNumbers};
use queue::interface::Queue;

// The data of a short record.
const SHORT_DATA: usize = SHORT_RECORD - FRAME_HEADER_LENGTH;

impl<F: Queue, T: Queue> Provider<F, T> {
    // Puts a record's octets into the frame buffer, if there is room.
    fn offer(&mut self, octets: &[u8]) -> Result<(), ReceptionRefusal>
        ensures { ComesTo F.Meaning T.Meaning self.old (λ s. offering s.session s.frames octets.now) (reception_answer result) self.new }
    {
        self.frames
            .add(octets)
            .map_err(|_| ReceptionRefusal::NoRoom)
    }

    // Puts a frame into the frame buffer, by way of so many local octets, if its data have an allowed length and there is
    // room. The number is a parameter so that each size is compiled by itself, and its copies with it.
    fn receive_by<const SIZE: usize>(
        &mut self,
        local: &mut [u8],
        quality: Quality,
        time: Time,
        data: &[u8],
    ) -> Result<(), ReceptionRefusal>
        requires size { length local.old ≡ SIZE }
        requires fits { length «data».now ≤ data_limit → length «data».now + 13 ≤ SIZE }
        ensures { ComesTo F.Meaning T.Meaning self.old (λ s. receive s.session s.frames 10 (Some (frame quality (stamp time) «data».now))) (reception_answer result) self.new }
    {
        let length = write_frame(local, quality, time, data).map_err(
            |_| ReceptionRefusal::DataLength,
        )?;
        self.offer(&local[..length])
    }

    // Puts a frame into the frame buffer, by way of the smaller of two local arrays that holds it, since an array is
    // cleared before it is filled: one array of the larger size for both is too slow.
    fn receive_frame(
        &mut self,
        quality: Quality,
        time: Time,
        data: &[u8],
    ) -> Result<(), ReceptionRefusal>
        ensures { ComesTo F.Meaning T.Meaning self.old (λ s. receive s.session s.frames 10 (Some (frame quality (stamp time) «data».now))) (reception_answer result) self.new }
    {
        if data.len() <= SHORT_DATA {
            let mut local = [0; SHORT_RECORD];
            return self.receive_by::<SHORT_RECORD>(&mut local, quality, time, data);
        }
        let mut local = [0; LONGEST_RECORD];
        self.receive_by::<LONGEST_RECORD>(&mut local, quality, time, data)
    }

    // A frame from the receiver: its quality and time by their numbers, unchecked, and its data.
    pub fn acquire(
        &mut self,
        quality: u8,
        time: TimeNumbers,
        data: &[u8],
    ) -> Result<(), ReceptionRefusal>
        ensures { Does F.Meaning T.Meaning self.old (event (acquire quality (numbers time) «data».now) (reception_answer result) []) self.new }
    {
        if self.session.is_closed() {
            return Err(ReceptionRefusal::Closed);
        }
        let quality = Quality::try_from(quality).map_err(|_| ReceptionRefusal::Quality)?;
        let time = Time::try_from(time).map_err(|_| ReceptionRefusal::Time)?;
        self.receive_frame(quality, time, data)
    }

    // Puts a notification into the frame buffer, if there is room; a status change then sets the production status.
    fn receive_notification(&mut self, notification: Notification) -> Result<(), ReceptionRefusal>
        ensures { ComesTo F.Meaning T.Meaning self.old (λ s. admit s.session s.frames (notified notification)) (reception_answer result) self.new }
    {
        let mut local = [0; LONGEST_RECORD];
        // This never refuses, since the array holds the longest notification.
        let length = write_notification(&mut local, notification).map_err(
            |_| ReceptionRefusal::NoRoom,
        )?;
        self.offer(&local[..length])?;
        if let Notification::ProductionStatusChange(status) = notification {
            self.session.production = status;
        }
        Ok(())
    }

    // A note from the receiver: type 0 is a loss of frame synchronization at a time, type 1 a production status.
    pub fn note(&mut self, kind: u8, time: TimeNumbers, status: u8) -> Result<(), ReceptionRefusal>
        ensures { Does F.Meaning T.Meaning self.old (event (note kind (numbers time) status) (reception_answer result) []) self.new }
    {
        if self.session.is_closed() {
            return Err(ReceptionRefusal::Closed);
        }
        match kind {
            0 => {
                let time = Time::try_from(time).map_err(|_| ReceptionRefusal::Time)?;
                self.receive_notification(Notification::LossOfFrameSynchronization(time))
            }
            1 => {
                let status = ProductionStatus::try_from(status).map_err(
                    |_| ReceptionRefusal::NoteTypeOrStatus,
                )?;
                self.receive_notification(Notification::ProductionStatusChange(status))
            }
            _ => Err(ReceptionRefusal::NoteTypeOrStatus),
        }
    }
}
