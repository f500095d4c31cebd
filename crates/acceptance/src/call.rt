use codec::time::TimeNumbers;
use replay::call::Call;
use script::arguments::Arguments;
use script::calls::CallLine;
use script::complaint::Complaint;

fn take_time(arguments: &mut Arguments) -> Result<TimeNumbers, Complaint> {
    Ok(TimeNumbers {
        day: arguments.number("DAY")?,
        millisecond: arguments.number("MILLISECOND")?,
        microsecond: arguments.number("MICROSECOND")?,
    })
}

// The call that a line says.
pub fn take_call(line: CallLine) -> Result<Call<Vec<u8>>, Complaint> {
    let CallLine {
        word,
        mut arguments,
        ..
    } = line;
    let call = match word {
        b"acquire" => Call::Acquire {
            quality: arguments.number("QUALITY of acquire")?,
            time: take_time(&mut arguments)?,
            data: arguments.octets("DATA of acquire")?,
        },
        b"note" => Call::Note {
            kind: arguments.number("TYPE of note")?,
            time: take_time(&mut arguments)?,
            status: arguments.number("STATUS of note")?,
        },
        b"move" => Call::Move,
        b"tick" => Call::Tick,
        b"collect" => Call::Collect {
            capacity: arguments.number("CAPACITY of collect")?,
        },
        b"invoke" => Call::Invoke {
            octets: arguments.octets("OCTETS of invoke")?,
        },
        b"open" => return Err(arguments.complaint("`open` comes once, before all calls")),
        other => {
            let expected = "acquire, note, move, tick, collect or invoke";
            return Err(arguments.unknown(other, expected));
        }
    };
    arguments.end()?;
    Ok(call)
}
