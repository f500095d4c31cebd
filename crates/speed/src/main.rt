#![tactic(auto)]

use std::{env, io};

mod load;
mod measure;
mod mixed;
mod pile;
mod receiver;
mod tally;

use load::Load;
use pile::{PILES, Pile};

// What is played where no argument says it: rounds in a batch, records held, and lengths of data.
const ROUNDS: u32 = 100;

const HELD: u32 = 10;

const LENGTHS: [usize; 4] = [64, 223, 1115, 2048];

const BUFFER_SIZES: [u32; 2] = [1, 8];

// What the arguments ask for: numbers are the rounds in a batch, the records held, and then lengths; names are piles.
#[derive(Drop)]
struct Order {
    rounds: u32,
    held: u32,
    lengths: Vec<usize>,
    piles: Vec<Pile>,
}

// Lengths come from memory, so that the compiler makes one code for all of them, as it has to for data from outside.
fn read_order(rt: &HostRuntime) -> io::Result<Order> {
    let mut numbers = Vec::new(rt.alloc());
    let mut piles = Vec::new(rt.alloc());
    // A loop, since it fills two lists, and either may run out of memory.
    for text in env::args(rt)?.skip(1) {
        if let Ok(number) = text.parse::<u32>() {
            numbers.push(number)?;
        } else if let Ok(pile) = text.parse::<Pile>() {
            piles.push(pile)?;
        }
    }
    let mut lengths: Vec<usize> = numbers
        .iter()
        .skip(2)
        .map(|number| *number as usize)
        .collect(rt.alloc())?;
    if lengths.is_empty() {
        lengths = Vec::from_slice(rt.alloc(), &LENGTHS)?;
    }
    if piles.is_empty() {
        piles = Vec::from_slice(rt.alloc(), &PILES)?;
    }
    Ok(Order {
        rounds: numbers.get(0).copied().unwrap_or(ROUNDS),
        held: numbers.get(1).copied().unwrap_or(HELD),
        lengths,
        piles,
    })
}

// Plays a provider over one pile, with data of each length, and with one and with eight records in a PDU.
fn play(rt: &HostRuntime, pile: Pile, lengths: &[usize], held: u32, rounds: u32) -> io::Result<()> {
    for length in lengths {
        for buffer_size in BUFFER_SIZES {
            let load = Load {
                length: *length,
                buffer_size,
                held,
                rounds,
            };
            pile.play(rt, &load)?;
        }
    }
    Ok(())
}

fn main(rt: HostRuntime) -> io::Result<()> {
    let Order {
        rounds,
        held,
        lengths,
        piles,
    } = read_order(&rt)?;
    mixed::play(&rt)?;
    for pile in piles {
        play(&rt, pile, &lengths, held, rounds)?;
    }
    Ok(())
}
