ghost use Rattle.std.specs.Prelude.{◌≡◌};
ghost use Rattle.queue.specs.Answers.{number, answer_of, admission};

// Why a queue refuses a call.
#[derive(Clone, Copy, Debug, PartialEq, Eq)]
pub enum Refusal {
    // Nothing is held.
    Empty,
    // The place lies past the record's end.
    Place,
    // The record has no octets, or more than the queue's largest length.
    Length,
    // There is no room for a record of this length now.
    NoRoom,
}

impl Refusal {
    // The refusal's number: a method, whose name says what the number is.
    pub fn number(&self) -> u8
        ensures { result ≡ number self.now }
    {
        match self {
            Refusal::Empty => 30,
            Refusal::Place => 31,
            Refusal::Length => 32,
            Refusal::NoRoom => 33,
        }
    }
}

// Whether a record of this length goes into a queue with this largest length, which has room for it or not.
pub fn admit(length: usize, largest: usize, room: bool) -> Result<(), Refusal>
    ensures { answer_of result ≡ admission largest room length }
{
    if length == 0 || length > largest {
        return Err(Refusal::Length);
    }
    if !room {
        return Err(Refusal::NoRoom);
    }
    Ok(())
}
