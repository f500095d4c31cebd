// Fills a pile of queues, one of them a maker's own, and carries what it holds into another queue.
#![tactic(auto)]

use carrying::carry_all;
use cells::cell_queue::CellQueue;
use layers::quota::Quota;
use layers::tandem::Tandem;
use packed::packed::Packed;
use queue::interface::Queue;
use std::io;

mod carrying;

const RECORDS: [&str; 7] = [
    "the first goes to the board",
    "",
    "and so does the second",
    "the quota is 2: this goes to far",
    "too long for a cell, not for the far queue",
    "no room is left for this one",
    "longer than a cell of the board, and longer than the far queue's hundred octets: no queue of the pile takes it",
];

// Adds records, and prints what the queue answers to each.
fn fill<Q: Queue>(rt: &HostRuntime, queue: &mut Q) -> io::Result<()> {
    for record in RECORDS {
        let length = record.len();
        match queue.add(record.as_bytes()) {
            Ok(()) => println!(rt; "add {length} octets: added")?,
            Err(refusal) => println!(rt; "add {length} octets: refused {}", refusal.number())?,
        }
    }
    Ok(())
}

// Prints the records of a queue, oldest first, and drops them.
fn empty<Q: Queue>(rt: &HostRuntime, queue: &mut Q) -> anyhow::Result<()> {
    // A queue is no iterator: its records are read and dropped by calls that may refuse.
    for _ in 0..queue.count() {
        let mut buffer = [0; 64];
        if let Ok(n) = queue.read_from(0, &mut buffer) {
            let text = String::from_utf8_lossy(rt.alloc(), &buffer[..n])?;
            println!(rt; "held: {text}")?;
        }
        let _ = queue.drop();
    }
    Ok(())
}

fn main(rt: HostRuntime) -> anyhow::Result<()> {
    let mut board = CellQueue::new(rt.alloc(), 4)?;
    let mut near = Quota::new(&mut board, 2);
    let mut far_octets = [0; 100];
    let mut far = Packed::new(&mut far_octets);
    let mut pile = Tandem::new(&mut near, &mut far);
    fill(&rt, &mut pile)?;

    let mut line_octets = [0; 1000];
    let mut line = Packed::new(&mut line_octets);
    let mut buffer = [0; 100];
    let before = pile.count();
    let carried = carry_all(&mut pile, &mut line, &mut buffer);
    let left = pile.count();
    println!(rt; "{carried} of {before} records carried, {left} left")?;
    empty(&rt, &mut line)
}
