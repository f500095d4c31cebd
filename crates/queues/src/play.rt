use crate::answer::{say_answer, say_held};
use crate::call::take_call;
use piles::memory::Sizes;
use piles::shape::{PileShape, take_pile};
use queue::interface::Queue;
use script::calls::{CallLine, CallLines};
use script::complaint::{Complaint, FaultyLine};
use script::output::say;
use script::played::Played;
use std::alloc::{AllocError, Global};

fn play_line<Q: Queue>(
    line: CallLine,
    queue: &mut Q,
    answers: &mut Vec<u8>,
) -> Result<(), Complaint> {
    let call = take_call(line)?;
    say_answer(answers, queue, &call)?;
    Ok(())
}

// Plays on a queue the calls of a script that are left, and answers each; tells of the line at which it stopped, if any.
fn play_lines<Q: Queue>(
    lines: CallLines,
    queue: &mut Q,
    answers: &mut Vec<u8>,
) -> Result<Option<FaultyLine>, AllocError> {
    for line in lines {
        let number = line.number;
        if let Err(complaint) = play_line(line, queue, answers) {
            return Ok(Some(FaultyLine { number, complaint }));
        }
    }
    say_held(answers, queue)?;
    Ok(None)
}

// The queue that a script's first call describes.
fn take_queue(line: CallLine) -> Result<PileShape, Complaint> {
    let CallLine {
        word,
        mut arguments,
        ..
    } = line;
    match word {
        b"queue" => {
            let shape = take_pile(&mut arguments)?;
            arguments.end()?;
            Ok(shape)
        }
        other => Err(arguments.unknown(other, "queue, before all calls")),
    }
}

fn stopped(number: u64, complaint: Complaint, heap: Global) -> Played {
    Played {
        answers: Vec::new(heap),
        fault: Some(FaultyLine { number, complaint }),
    }
}

// Plays a script on the queue that its first call describes.
pub fn play(text: &[u8], heap: Global) -> Result<Played, AllocError> {
    let mut lines = CallLines::new(text, heap);
    let Some(line) = lines.next() else {
        let complaint = Complaint::missing(heap, "`queue`, the first call,");
        return Ok(stopped(1, complaint, heap));
    };
    let number = line.number;
    // A `match`, since what has been answered is given back also where a line is faulty.
    let shape = match take_queue(line) {
        Ok(shape) => shape,
        Err(complaint) => return Ok(stopped(number, complaint, heap)),
    };
    let Ok(mut memory) = shape.memory(heap) else {
        return Ok(stopped(number, Complaint::NoMemory, heap));
    };
    let mut answers = Vec::new(heap);
    say(&mut answers, "ready\n")?;
    let fault = play_lines(lines, &mut memory.queue(), &mut answers)?;
    Ok(Played { answers, fault })
}
