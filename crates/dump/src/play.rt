use crate::invocations::say_invocation;
use crate::records::say_pdu;
use script::calls::{CallLine, CallLines};
use script::complaint::{Complaint, FaultyLine};
use script::played::Played;
use std::alloc::Global;

fn play_line(line: CallLine, answers: &mut Vec<u8>) -> Result<(), Complaint> {
    let mut arguments = line.arguments;
    match line.word {
        b"pdu" => {
            let pdu = arguments.octets("OCTETS of pdu")?;
            arguments.end()?;
            say_pdu(answers, pdu.as_slice())?;
        }
        b"invocation" => {
            let octets = arguments.octets("OCTETS of invocation")?;
            arguments.end()?;
            say_invocation(answers, octets.as_slice())?;
        }
        other => return Err(arguments.unknown(other, "pdu or invocation")),
    }
    Ok(())
}

// Answers each line of a script, up to the first that is faulty.
fn play_lines(text: &[u8], heap: Global, answers: &mut Vec<u8>) -> Result<(), FaultyLine> {
    for line in CallLines::new(text, heap) {
        let number = line.number;
        play_line(line, answers).map_err(|complaint| FaultyLine { number, complaint })?;
    }
    Ok(())
}

// The answers to a script, and its first faulty line, if any.
pub fn play(text: &[u8], heap: Global) -> Played {
    let mut answers = Vec::new(heap);
    let fault = play_lines(text, heap, &mut answers).err();
    Played { answers, fault }
}
