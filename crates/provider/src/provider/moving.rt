ghost use Rattle.std.specs.Prelude.{◌≡◌, ◌<◌, ◌≤◌, [], take};
ghost use Rattle.histories.specs.Calls.{move};
ghost use Rattle.histories.specs.Provider.{oldest, move_record};
ghost use Rattle.codec.specs.Limits.{longest_record};
ghost use Rattle.codec.specs.RecordReading.{one_record};
ghost use Rattle.queue.specs.Answers.{gives, first_answer};
ghost use Rattle.provider.specs.Answers.{move_answer};
ghost use Rattle.provider.specs.Sessions.{HasRoom};
ghost use Rattle.provider.specs.States.{state_of, event, Does, ComesTo};

use super::Provider;
use crate::answer::MoveAnswer;
use crate::transfer_buffer::SHORT_RECORD;
use codec::record::{LONGEST_RECORD, one_record};
use queue::interface::Queue;

impl<F: Queue, T: Queue> Provider<F, T> {
    // Looks at the frame buffer's oldest record, which is the front of a local array: it ends the run, goes to the
    // transfer buffer, or is passed over.
    fn take_by<const SIZE: usize>(&mut self, copy: &[u8; SIZE], length: usize) -> MoveAnswer
        requires room { HasRoom self.old.session }
        requires within { SIZE ≤ longest_record }
        requires holds { length ≤ SIZE }
        requires held { gives length ≡ first_answer (F.Meaning.held self.old.frames) }
        requires read { oldest (F.Meaning.held self.old.frames) ≡ one_record (take length copy.now) }
        ensures { ComesTo F.Meaning T.Meaning self.old (λ s. move_record s.session (oldest s.frames.held)) (move_answer result) self.new }
    {
        let local = &copy[..];
        let Some(content) = one_record(&local[..length]) else {
            return MoveAnswer::Idle;
        };
        if self.session.selection.is_late(&content) {
            self.session.enter_end_of_data();
            return MoveAnswer::Ended;
        }
        if self.session.selection.selects(&content) {
            self.session.enter(&local[..length], &content);
            let _ = self.frames.drop();
            return MoveAnswer::Moved;
        }
        let _ = self.frames.drop();
        MoveAnswer::PassedOver
    }

    // Looks at the frame buffer's oldest record, by way of the smaller of two local arrays that holds it, since an array
    // is cleared before it is filled: one array of the larger size for both is too slow.
    fn take_oldest(&mut self) -> MoveAnswer
        requires { HasRoom self.old.session }
        ensures { ComesTo F.Meaning T.Meaning self.old (λ s. move_record s.session (oldest s.frames.held)) (move_answer result) self.new }
    {
        let Ok(length) = self.frames.first_length() else {
            return MoveAnswer::Idle;
        };
        if length > LONGEST_RECORD {
            return MoveAnswer::Idle;
        }
        if length <= SHORT_RECORD {
            let mut local = [0; SHORT_RECORD];
            let _ = self.frames.read_from(0, &mut local);
            return self.take_by(&local, length);
        }
        let mut local = [0; LONGEST_RECORD];
        let _ = self.frames.read_from(0, &mut local);
        self.take_by(&local, length)
    }

    // One step on the way from the frame buffer to the transport.
    pub fn move_record(&mut self) -> MoveAnswer
        ensures { Does F.Meaning T.Meaning self.old (event move (move_answer result) []) self.new }
    {
        if !self.session.is_active() {
            return MoveAnswer::Idle;
        }
        if self.session.must_send() {
            return self
                .send()
                .map_or(MoveAnswer::Waiting, |()| MoveAnswer::Sent);
        }
        if self.session.end_mark {
            return MoveAnswer::Idle;
        }
        self.take_oldest()
    }
}
