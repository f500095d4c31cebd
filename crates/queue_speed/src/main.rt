#![tactic(auto)]

use std::{env, io};

mod churn;
mod limits;
mod piles;

use piles::Load;

// How often a record is added, read and dropped in a batch, and the lengths of records, where no argument says it.
const ROUNDS: u32 = 100;

const LENGTHS: [usize; 3] = [64, 512, 2061];

// Plays each queue with records of each length, with few and with many records held.
fn play(rt: &HostRuntime, rounds: u32, lengths: &[usize]) -> io::Result<()> {
    for length in lengths {
        for held in [10, 10000] {
            let load = Load {
                length: *length,
                held,
                rounds,
            };
            piles::packed(rt, load)?;
            piles::slot(rt, load)?;
            piles::tandem(rt, load)?;
        }
    }
    Ok(())
}

// The arguments are the rounds in a batch, and then lengths; the name that the program was started by, where that is a
// number, is the first length. Lengths come from memory, so that the compiler makes one
// code for all of them, as it has to for records from outside.
fn main(rt: HostRuntime) -> io::Result<()> {
    limits::show(&rt)?;
    let rounds = env::args(&rt)?
        .nth(1)
        .and_then(|text| text.parse().ok())
        .unwrap_or(ROUNDS);
    let mut lengths: Vec<usize> = env::args(&rt)?
        .enumerate()
        .filter(|(place, _)| *place != 1)
        .filter_map(|(_, text)| text.parse::<u32>().ok())
        .map(|length| length as usize)
        .collect(rt.alloc())?;
    if lengths.is_empty() {
        lengths = Vec::from_slice(rt.alloc(), &LENGTHS)?;
    }
    play(&rt, rounds, &lengths)
}
