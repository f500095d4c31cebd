use crate::call::Call;
use queue::interface::Queue;
use queue::refusal::Refusal;
use script::hexadecimal::Hexadecimal;
use script::output::say;
use std::alloc::AllocError;

fn say_refusal(out: &mut Vec<u8>, refusal: Refusal) -> Result<(), AllocError> {
    let number = refusal.number();
    say(out, format_args!("refused {number}\n"))
}

// Says what was done, or the refusal.
fn say_done(out: &mut Vec<u8>, done: &str, outcome: Result<(), Refusal>) -> Result<(), AllocError> {
    match outcome {
        Ok(()) => say(out, format_args!("{done}\n")),
        Err(refusal) => say_refusal(out, refusal),
    }
}

// A buffer of no more octets than the longest record is as good as a longer one, since a read goes as far as both.
fn say_read<Q: Queue>(
    out: &mut Vec<u8>,
    queue: &mut Q,
    place: usize,
    capacity: usize,
) -> Result<(), AllocError> {
    let heap = *out.allocator();
    let mut buffer = vec![in heap; 0; capacity.min(queue.largest())]?;
    match queue.read_from(place, &mut buffer) {
        Ok(count) => {
            buffer.truncate(count);
            say(out, format_args!("read {count} {}\n", Hexadecimal(&buffer)))
        }
        Err(refusal) => say_refusal(out, refusal),
    }
}

// Plays one call and writes its answer.
pub fn say_answer<Q: Queue>(
    out: &mut Vec<u8>,
    queue: &mut Q,
    call: &Call,
) -> Result<(), AllocError> {
    match call {
        Call::Count => say(out, format_args!("count {}\n", queue.count())),
        Call::Largest => say(out, format_args!("largest {}\n", queue.largest())),
        Call::Room(length) => say(
            out,
            if queue.room_for(*length) {
                "room yes\n"
            } else {
                "room no\n"
            },
        ),
        Call::Add(octets) => say_done(out, "added", queue.add(octets)),
        Call::First => match queue.first_length() {
            Ok(length) => say(out, format_args!("first {length}\n")),
            Err(refusal) => say_refusal(out, refusal),
        },
        Call::Read { place, capacity } => say_read(out, queue, *place, *capacity),
        Call::Drop => say_done(out, "dropped", queue.drop()),
    }
}

// Empties the queue, and writes how many records and octets it held.
pub fn say_held<Q: Queue>(out: &mut Vec<u8>, queue: &mut Q) -> Result<(), AllocError> {
    let records = queue.count();
    let mut octets = 0u64;
    // A queue is no iterator: its records are asked for and dropped by calls that may refuse.
    for _ in 0..records {
        if let Ok(length) = queue.first_length() {
            octets = octets.saturating_add(length as u64);
        }
        let _ = queue.drop();
    }
    say(
        out,
        format_args!("held {records} records, {octets} octets\n"),
    )
}
