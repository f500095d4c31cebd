use script::calls::CallLine;
use script::complaint::Complaint;

// A call of a queue, as a line of a script says it.
#[derive(Drop)]
pub enum Call {
    Count,
    Largest,
    Room(usize),
    Add(Vec<u8>),
    First,
    Read { place: usize, capacity: usize },
    Drop,
}

// The call that a line says.
pub fn take_call(line: CallLine) -> Result<Call, Complaint> {
    let CallLine {
        word,
        mut arguments,
        ..
    } = line;
    let call = match word {
        b"count" => Call::Count,
        b"largest" => Call::Largest,
        b"room" => Call::Room(arguments.number("LENGTH of room")?),
        b"add" => Call::Add(arguments.octets("OCTETS of add")?),
        b"first" => Call::First,
        b"read" => Call::Read {
            place: arguments.number("PLACE of read")?,
            capacity: arguments.number("CAPACITY of read")?,
        },
        b"drop" => Call::Drop,
        b"queue" => return Err(arguments.complaint("`queue` comes once, before all calls")),
        other => {
            let expected = "count, largest, room, add, first, read or drop";
            return Err(arguments.unknown(other, expected));
        }
    };
    arguments.end()?;
    Ok(call)
}
