use crate::churn::{Tally, churn, fill};
use layers::tandem::Tandem;
use packed::packed::Packed;
use queue::interface::Queue;
use slot::note::SlotNote;
use slot::slotted::Slotted;
use std::io;
use std::time::Instant;

// Records of one length, of which so many are held all the time.
#[derive(Clone, Copy)]
pub struct Load {
    pub length: usize,
    pub held: u32,
    pub rounds: u32,
}

// How often a load is timed. The fastest time counts, since other work on the machine only adds to it.
const BATCHES: u32 = 20;

// Churns records through a queue so often, and answers what was moved and the nanoseconds of the fastest batch.
fn fastest<Q: Queue>(
    rt: &HostRuntime,
    queue: &mut Q,
    record: &mut [u8],
    out: &mut [u8],
    rounds: u32,
) -> io::Result<(Tally, u128)> {
    let mut tally = Tally::default();
    let mut best = u128::MAX;
    for _ in 0..BATCHES {
        let start = Instant::now(rt)?;
        churn(queue, record, out, rounds, &mut tally);
        best = best.min(start.elapsed(rt)?.as_nanos());
    }
    Ok((tally, best))
}

// Fills the queue and churns records through it: what was moved on standard output, the time on standard error.
fn measure<Q: Queue>(rt: &HostRuntime, name: &str, queue: &mut Q, load: Load) -> io::Result<()> {
    let Load {
        length,
        held,
        rounds,
    } = load;
    let mut record = vec![in rt.alloc(); 7u8; length]?;
    let mut out = vec![in rt.alloc(); 0u8; length]?;
    fill(queue, &mut record, held);
    let (tally, best) = fastest(rt, queue, &mut record, &mut out, rounds)?;
    println!(rt;
        "{name} {length} {held} {} {} {}",
        tally.records, tally.octets, tally.sum
    )?;
    eprintln!(rt; "{name} {length} {held} {rounds} {best}")
}

// Octets for the records of a load, packed, and a few more, so that records go round the end.
fn packed_memory(rt: &HostRuntime, load: Load) -> io::Result<Vec<u8>> {
    let octets = load
        .length
        .saturating_add(2)
        .saturating_mul(load.held as usize + 2)
        .saturating_add(5);
    Ok(vec![in rt.alloc(); 0u8; octets]?)
}

// The octets and the notes of a queue of slots.
fn slot_memory(
    rt: &HostRuntime,
    slots: usize,
    width: usize,
) -> io::Result<(Vec<u8>, Vec<SlotNote>)> {
    let octets = vec![in rt.alloc(); 0u8; width.saturating_mul(slots)]?;
    let notes = vec![in rt.alloc(); SlotNote::default(); slots]?;
    Ok((octets, notes))
}

pub fn packed(rt: &HostRuntime, load: Load) -> io::Result<()> {
    let mut memory = packed_memory(rt, load)?;
    let mut queue = Packed::new(&mut memory);
    measure(rt, "packed", &mut queue, load)
}

pub fn slot(rt: &HostRuntime, load: Load) -> io::Result<()> {
    let (mut octets, mut notes) = slot_memory(rt, load.held as usize + 2, load.length)?;
    let mut queue = Slotted::new(&mut octets, &mut notes, load.length);
    measure(rt, "slot", &mut queue, load)
}

// Half of the records go to slots, the others to a packed queue behind them.
pub fn tandem(rt: &HostRuntime, load: Load) -> io::Result<()> {
    let (mut octets, mut notes) = slot_memory(rt, load.held as usize / 2, load.length)?;
    let mut near = Slotted::new(&mut octets, &mut notes, load.length);
    let mut behind = packed_memory(rt, load)?;
    let mut far = Packed::new(&mut behind);
    let mut queue = Tandem::new(&mut near, &mut far);
    measure(rt, "tandem", &mut queue, load)
}
