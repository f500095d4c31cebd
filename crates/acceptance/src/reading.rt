use crate::call::take_call;
use crate::opening::{ScriptOpening, take_opening};
use replay::call::Call;
use script::calls::{CallLine, CallLines};
use script::complaint::{Complaint, FaultyLine};
use std::alloc::{AllocError, Global};

// The calls of a script up to its end or its first faulty line.
#[derive(Drop)]
pub struct Script {
    pub calls: Vec<Call<Vec<u8>>>,
    pub fault: Option<FaultyLine>,
}

// The first call of a script, with the number of its line.
pub fn read_opening(
    lines: &mut CallLines,
    heap: Global,
) -> Result<(u64, ScriptOpening), FaultyLine> {
    let Some(line) = lines.next() else {
        let text: Result<String, AllocError> = String::from_str(
            heap,
            "the script has no call; expected `open` first",
        );
        return Err(FaultyLine {
            number: 1,
            complaint: Complaint::from(text),
        });
    };
    let number = line.number;
    take_opening(line)
        .map(|opening| (number, opening))
        .map_err(|complaint| FaultyLine { number, complaint })
}

fn read_call(line: CallLine, calls: &mut Vec<Call<Vec<u8>>>) -> Result<(), Complaint> {
    calls.push(take_call(line)?)?;
    Ok(())
}

// The calls of the lines that are left.
pub fn read_calls(lines: CallLines, heap: Global) -> Script {
    let mut calls = Vec::new(heap);
    for line in lines {
        let number = line.number;
        if let Err(complaint) = read_call(line, &mut calls) {
            return Script {
                calls,
                fault: Some(FaultyLine { number, complaint }),
            };
        }
    }
    Script { calls, fault: None }
}
