use queue::interface::Queue;

// What a churn has moved, and a sum over octets that it read.
#[derive(Clone, Copy, Default)]
pub struct Tally {
    pub records: u32,
    pub octets: u64,
    pub sum: u64,
}

// Gives each record another first octet, so that a record in another's place changes the sum.
fn mark(record: &mut [u8], number: u32) {
    if let Some(first) = record.first_mut() {
        *first = (number % 256) as u8;
    }
}

// The first and the last octet of what was read.
fn ends(out: &[u8]) -> u64 {
    match out {
        [first, .., last] => *first as u64 * 256 + *last as u64,
        _ => 0,
    }
}

// Adds this many records.
pub fn fill<Q: Queue>(queue: &mut Q, record: &mut [u8], count: u32) {
    for number in 0..count {
        mark(record, number);
        let _ = queue.add(record);
    }
}

// Adds a record, reads the oldest and drops it; so often.
pub fn churn<Q: Queue>(
    queue: &mut Q,
    record: &mut [u8],
    out: &mut [u8],
    rounds: u32,
    tally: &mut Tally,
) {
    for number in 0..rounds {
        let _ = queue.add(record);
        mark(record, number);
        if let Ok(n) = queue.read_from(0, out) {
            tally.octets = tally.octets.wrapping_add(n as u64);
            tally.sum = tally.sum.wrapping_add(ends(out));
        }
        if let Ok(()) = queue.drop() {
            tally.records = tally.records.wrapping_add(1);
        }
    }
}
