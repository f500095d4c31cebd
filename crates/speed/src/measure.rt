use crate::load::Load;
use crate::pile::Pile;
use crate::receiver::Receiver;
use crate::tally::Tally;
use queue::interface::Queue;
use std::io;
use std::time::Instant;

// How often a load is timed. The fastest time counts, since other work on the machine only adds to it.
const BATCHES: u32 = 20;

// The rounds of the batch whose octets are all summed.
const WHOLE_ROUNDS: u32 = 1000;

// The nanoseconds of the fastest batch.
fn fastest<F: Queue + Drop, T: Queue + Drop>(
    rt: &HostRuntime,
    receiver: &mut Receiver<F, T>,
    rounds: u32,
) -> io::Result<u128> {
    let mut best = u128::MAX;
    for _ in 0..BATCHES {
        let start = Instant::now(rt)?;
        receiver.serve(
            rounds,
            |tally: &mut Tally, pdu: &[u8]| tally.enter_ends(pdu),
        );
        best = best.min(start.elapsed(rt)?.as_nanos());
    }
    Ok(best)
}

// Fills the frame buffer, plays a batch whose octets are all summed, and then the batches that are timed. What was
// collected goes to standard output, the time to standard error.
pub fn measure<F: Queue + Drop, T: Queue + Drop>(
    rt: &HostRuntime,
    pile: Pile,
    frames: F,
    transport: T,
    load: &Load,
) -> io::Result<()> {
    let Load {
        length,
        buffer_size,
        held,
        rounds,
    } = *load;
    let Some(mut receiver) = Receiver::begin(rt.alloc(), frames, transport, load)? else {
        return println!(rt; "{pile} {length} {buffer_size} {held} not opened");
    };
    for number in 0..held {
        receiver.receive(number);
    }
    receiver.serve(
        rounds.min(WHOLE_ROUNDS),
        |tally: &mut Tally, pdu: &[u8]| tally.enter_whole(pdu),
    );
    let best = fastest(rt, &mut receiver, rounds)?;
    print!(rt; "{pile} {length} {buffer_size} {held}")?;
    receiver.tally.show(rt)?;
    eprintln!(rt; "{pile} {length} {buffer_size} {held} {rounds} {best}")
}
