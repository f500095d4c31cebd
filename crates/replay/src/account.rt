ghost use Rattle.std.specs.Prelude.{◌≡◌, ◌-◌};
ghost use Rattle.histories.specs.Accounts.{nothing, counted, one_accepted, one_moved, one_passed, one_sent, lose};
ghost use Rattle.replay.specs.Accounts.{account_of, Becomes};
ghost use Rattle.replay.specs.Events.{answer_of};

use crate::answer::Answer;
use provider::answer::{InvocationRefusal, MoveAnswer, Performed, TickAnswer};

// How many records were accepted, and how many of them came to what; how many PDUs were sent to the transport, and
// how many collected there.
#[derive(Clone, Copy, Debug, Default, PartialEq, Eq)]
pub struct Account {
    pub accepted: u64,
    pub handed_over: u64,
    pub pending: u64,
    pub untaken: u64,
    pub passed_over: u64,
    pub discarded: u64,
    pub pdus_sent: u64,
    pub pdus_collected: u64,
}

impl Account {
    pub fn new() -> Account
        ensures { account_of result ≡ nothing }
    {
        Account::default()
    }

    // One answer more. A number that would have more than 64 bits stays the largest of 64 bits.
    pub fn enter(&mut self, answer: &Answer)
        ensures { Becomes (counted (answer_of answer.now) (account_of self.old)) (account_of self.new) }
    {
        match answer {
            Answer::Received(Ok(())) => self.enter_acceptance(),
            Answer::Moved(MoveAnswer::Moved) => self.enter_move(),
            Answer::Moved(MoveAnswer::PassedOver) => self.enter_passing_over(),
            Answer::Moved(MoveAnswer::Sent) => self.enter_sending(),
            Answer::Ticked(TickAnswer::Sent) => self.enter_sending(),
            Answer::Collected(Ok(_)) => {
                self.pdus_collected = self.pdus_collected.saturating_add(1);
            }
            Answer::Invoked(Ok(Performed::Aborted { lost })) => self.enter_loss(*lost),
            Answer::Invoked(Err(InvocationRefusal::Undecodable { lost, .. })) => self.enter_loss(
                *lost,
            ),
            Answer::Invoked(Err(InvocationRefusal::ProtocolError { lost })) => self.enter_loss(
                *lost,
            ),
            _ => {}
        }
    }

    // The PDUs that were sent and not yet collected.
    pub fn pdus_waiting(&self) -> u64
        ensures { result ≡ (account_of self.now).sent_pdus - (account_of self.now).collected_pdus }
    {
        self.pdus_sent.saturating_sub(self.pdus_collected)
    }

    fn enter_acceptance(&mut self)
        ensures { Becomes (one_accepted (account_of self.old)) (account_of self.new) }
    {
        self.accepted = self.accepted.saturating_add(1);
        self.untaken = self.untaken.saturating_add(1);
    }

    fn enter_move(&mut self)
        ensures { Becomes (one_moved (account_of self.old)) (account_of self.new) }
    {
        self.untaken = self.untaken.saturating_sub(1);
        self.pending = self.pending.saturating_add(1);
    }

    fn enter_passing_over(&mut self)
        ensures { Becomes (one_passed (account_of self.old)) (account_of self.new) }
    {
        self.untaken = self.untaken.saturating_sub(1);
        self.passed_over = self.passed_over.saturating_add(1);
    }

    // All that is pending is handed over, as one PDU.
    fn enter_sending(&mut self)
        ensures { Becomes (one_sent (account_of self.old)) (account_of self.new) }
    {
        self.handed_over = self.handed_over.saturating_add(self.pending);
        self.pending = 0;
        self.pdus_sent = self.pdus_sent.saturating_add(1);
    }

    // An answer that tells of a loss tells that all that is pending is discarded.
    fn enter_loss(&mut self, lost: usize)
        ensures { Becomes (lose lost (account_of self.old)) (account_of self.new) }
    {
        if lost > 0 {
            self.discarded = self.discarded.saturating_add(self.pending);
            self.pending = 0;
        }
    }
}
