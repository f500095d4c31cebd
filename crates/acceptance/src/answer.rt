ghost use Rattle.std.specs.Prelude.{◌≡◌, [], ◌++◌, OnOk, Some};
ghost use Rattle.acceptance.specs.Lines.{opening_line, answer_line};
ghost use Rattle.provider.specs.Answers.{opening_answer, move_answer, tick_answer, performed_answer, refusal_answer};
ghost use Rattle.replay.specs.Events.{answer_of, copied_of};

use provider::answer::{InvocationRefusal, MoveAnswer, OpeningRefusal, Performed, TickAnswer};
use replay::answer::Answer;
use script::hexadecimal::Hexadecimal;
use script::output::say;
use std::alloc::AllocError;
use std::fmt;

// What a move did, printed as its line.
#[derive(Clone, Copy)]
struct MoveLine(MoveAnswer);

impl fmt::Display for MoveLine {
    ghost output = { λ l. Some (answer_line (move_answer l.0) []) };

    fn fmt<W: fmt::Write>(&self, f: &mut fmt::Formatter<W>) -> fmt::Result {
        match self.0 {
            MoveAnswer::Idle => writeln!(f, "idle"),
            MoveAnswer::Sent => writeln!(f, "sent"),
            MoveAnswer::Waiting => writeln!(f, "waiting"),
            MoveAnswer::Ended => writeln!(f, "ended"),
            MoveAnswer::Moved => writeln!(f, "moved"),
            MoveAnswer::PassedOver => writeln!(f, "passed over"),
        }
    }
}

// What a tick did, printed as its line.
#[derive(Clone, Copy)]
struct TickLine(TickAnswer);

impl fmt::Display for TickLine {
    ghost output = { λ l. Some (answer_line (tick_answer l.0) []) };

    fn fmt<W: fmt::Write>(&self, f: &mut fmt::Formatter<W>) -> fmt::Result {
        match self.0 {
            TickAnswer::Quiet => writeln!(f, "quiet"),
            TickAnswer::Sent => writeln!(f, "sent"),
            TickAnswer::Waiting => writeln!(f, "waiting"),
        }
    }
}

// What an accepted invocation did, printed as its line.
#[derive(Clone, Copy)]
struct PerformedLine(Performed);

impl fmt::Display for PerformedLine {
    ghost output = { λ l. Some (answer_line (performed_answer l.0) []) };

    fn fmt<W: fmt::Write>(&self, f: &mut fmt::Formatter<W>) -> fmt::Result {
        match self.0 {
            Performed::Started { id } => writeln!(f, "started {id}"),
            Performed::Stopped { id } => writeln!(f, "stopped {id}"),
            Performed::Bound { id, version } => writeln!(f, "bound {id} version {version}"),
            Performed::Unbound { id } => writeln!(f, "unbound {id}"),
            Performed::Aborted { lost } => writeln!(f, "aborted lost {lost}"),
        }
    }
}

// Why an invocation is refused, printed as its line.
#[derive(Clone, Copy)]
struct RefusalLine(InvocationRefusal);

impl fmt::Display for RefusalLine {
    ghost output = { λ l. Some (answer_line (refusal_answer l.0) []) };

    fn fmt<W: fmt::Write>(&self, f: &mut fmt::Formatter<W>) -> fmt::Result {
        match self.0 {
            InvocationRefusal::Undecodable { fault, lost } => {
                writeln!(f, "refused 20 {fault} lost {lost}")
            }
            InvocationRefusal::ProtocolError { lost } => writeln!(f, "refused 21 lost {lost}"),
            other => {
                let number = other.number();
                writeln!(f, "refused {number}")
            }
        }
    }
}

// An answer, printed as its line.
#[derive(Clone, Copy)]
struct AnswerLine<'a>(&'a Answer);

impl fmt::Display for AnswerLine<'_> {
    ghost output = { λ l. Some (answer_line (answer_of l.0.now) (copied_of l.0.now)) };

    fn fmt<W: fmt::Write>(&self, f: &mut fmt::Formatter<W>) -> fmt::Result {
        match self.0 {
            Answer::Received(Ok(())) => writeln!(f, "accepted"),
            Answer::Received(Err(refusal)) => {
                let number = refusal.number();
                writeln!(f, "refused {number}")
            }
            Answer::Moved(answer) => write!(f, "{}", MoveLine(*answer)),
            Answer::Ticked(answer) => write!(f, "{}", TickLine(*answer)),
            Answer::Collected(Ok(octets)) => {
                let length = octets.len();
                let octets = Hexadecimal(octets.as_slice());
                writeln!(f, "collected {length} {octets}")
            }
            Answer::Collected(Err(refusal)) => {
                let number = refusal.number();
                writeln!(f, "refused {number}")
            }
            Answer::Invoked(Ok(performed)) => write!(f, "{}", PerformedLine(*performed)),
            Answer::Invoked(Err(refusal)) => write!(f, "{}", RefusalLine(*refusal)),
        }
    }
}

// The line of the opening, by its number.
pub fn say_opening_number(out: &mut Vec<u8>, number: u8) -> Result<(), AllocError>
    ensures { OnOk result (out.new.items ≡ out.old.items ++ opening_line number) }
{
    if number == 0 {
        say(out, "opened\n")
    } else {
        say(out, format_args!("refused {number}\n"))
    }
}

// The line of the opening.
pub fn say_opening(out: &mut Vec<u8>, opening: Result<(), OpeningRefusal>) -> Result<(), AllocError>
    ensures { OnOk result (out.new.items ≡ out.old.items ++ opening_line (opening_answer opening)) }
{
    let number = match opening {
        Ok(()) => 0,
        Err(refusal) => refusal.number(),
    };
    say_opening_number(out, number)
}

// The line of an answer.
pub fn say_answer(out: &mut Vec<u8>, answer: &Answer) -> Result<(), AllocError>
    ensures { OnOk result (out.new.items ≡ out.old.items ++ answer_line (answer_of answer.now) (copied_of answer.now)) }
{
    say(out, AnswerLine(answer))
}
