use crate::receiver::{BIND, IDENTIFIER, VERSION};
use crate::tally::Tally;
use codec::time::TimeNumbers;
use layers::quota::Quota;
use packed::packed::Packed;
use provider::answer::{InvocationRefusal, MoveAnswer, Performed, ReceptionRefusal, TickAnswer};
use provider::provider::Provider;
use provider::settings::Opening;
use queue::interface::Queue;
use std::alloc::{AllocError, Global};
use std::io;

// Calls of all kinds in no order, with numbers that are out of range now and then, over queues that are often full:
// the sum over all answers and all octets shows that another program keeps the same rules.
const PLAYS: u64 = 60;

const CALLS: u32 = 400;

const DATA_ROOM: usize = 2100;

const OUT_ROOM: usize = 6200;

// Records for a full transfer buffer, and ticks that one may wait there.
const BUFFER_SIZE: u32 = 3;

const LATENCY_LIMIT: u32 = 4;

// All frames, no times.
const START_ALL: [u8; 8] = [0x49, 0x56, 0, 0, 3, 2, 0, 0];

// Erred frames from the second hour of day 1 to the 20th, and the same span turned round.
const START_SPAN: [u8; 24] = [
    0x49, 0x56, 0, 0, 4, 1, 1, 0, 1, 0, 0x36, 0xee, 0x80, 0, 0, 1, 0, 1, 4, 0x4a, 0xa2, 0, 0, 0,
];

const START_TURNED: [u8; 24] = [
    0x49, 0x56, 0, 0, 5, 1, 1, 0, 1, 4, 0x4a, 0xa2, 0, 0, 0, 1, 0, 1, 0, 0x36, 0xee, 0x80, 0, 0,
];

const STOP: [u8; 5] = [0x49, 0x56, 2, 0, 6];

const UNBIND_SUSPEND: [u8; 6] = [0x49, 0x56, 102, 0, 7, 1];

const PEER_ABORT: [u8; 4] = [0x49, 0x56, 104, 127];

const BIND_OTHER: [u8; 10] = [0x49, 0x56, 100, 0, 8, 2, 3, 0x61, 0x62, 0x64];

const BIND_OLD: [u8; 10] = [0x49, 0x56, 100, 0, 9, 1, 3, 0x61, 0x62, 0x63];

// Numbers that are the same in every run.
#[derive(Clone, Copy)]
struct Dice(u64);

impl Dice {
    // A number of 31 bits.
    fn roll(&mut self) -> u32 {
        self.0 = self
            .0
            .wrapping_mul(6_364_136_223_846_793_005)
            .wrapping_add(1_442_695_040_888_963_407);
        (self.0 / 8_589_934_592) as u32
    }
}

// What is answered, as numbers to sum: by functions, since a program can write no `From` between types of others.
fn reception_code(answer: Result<(), ReceptionRefusal>) -> u64 {
    answer.map_or_else(|refusal| u64::from(refusal.number()), |()| 0)
}

fn move_code(answer: MoveAnswer) -> u64 {
    match answer {
        MoveAnswer::Idle => 40,
        MoveAnswer::Sent => 41,
        MoveAnswer::Waiting => 42,
        MoveAnswer::Ended => 43,
        MoveAnswer::Moved => 44,
        MoveAnswer::PassedOver => 45,
    }
}

fn tick_code(answer: TickAnswer) -> u64 {
    match answer {
        TickAnswer::Quiet => 50,
        TickAnswer::Sent => 51,
        TickAnswer::Waiting => 52,
    }
}

fn invocation_code(answer: Result<Performed, InvocationRefusal>) -> u64 {
    match answer {
        Ok(performed) => match performed {
            Performed::Started { id } => 100 + id as u64,
            Performed::Stopped { id } => 200 + id as u64,
            Performed::Bound { id, version } => 300 + id as u64 + version as u64,
            Performed::Unbound { id } => 400 + id as u64,
            Performed::Aborted { lost } => 500u64.wrapping_add(lost as u64),
        },
        Err(refusal) => match refusal {
            InvocationRefusal::Undecodable { lost, .. } => 600u64.wrapping_add(lost as u64),
            InvocationRefusal::ProtocolError { lost } => 700u64.wrapping_add(lost as u64),
            other => other.number() as u64,
        },
    }
}

// A provider and the numbers that choose its calls, the data of frames, the buffer that PDUs are collected into, and what
// has been answered.
#[derive(Drop)]
struct RandomReceiver<F, T> {
    provider: Provider<F, T>,
    dice: Dice,
    data: Vec<u8>,
    out: Vec<u8>,
    tally: Tally,
}

impl<F: Queue, T: Queue> RandomReceiver<F, T> {
    fn acquire(&mut self) {
        let quality = (self.dice.roll() % 4) as u8;
        let time = TimeNumbers {
            day: 1,
            millisecond: self.dice.roll() % 90_000_000,
            microsecond: self.dice.roll() % 1_010,
        };
        let length = (self.dice.roll() % 2_060) as usize;
        let RandomReceiver {
            provider,
            data,
            tally,
            ..
        } = self;
        let answer = data
            .get(..length)
            .map_or(Ok(()), |data| provider.acquire(quality, time, data));
        tally.acquired(answer.is_ok());
        tally.mix(reception_code(answer));
    }

    fn note(&mut self) {
        let kind = (self.dice.roll() % 3) as u8;
        let time = TimeNumbers {
            day: 1,
            millisecond: self.dice.roll() % 90_000_000,
            microsecond: 5,
        };
        // Production is halted only now and then, since nothing starts while it is.
        let status = match self.dice.roll() % 16 {
            0 => 2,
            1 => 3,
            2 => 1,
            _ => 0,
        };
        let answer = self.provider.note(kind, time, status);
        self.tally.mix(reception_code(answer));
    }

    fn collect(&mut self) {
        let room = (self.dice.roll() as usize % 12_400).min(self.out.len());
        let RandomReceiver {
            provider,
            out,
            tally,
            ..
        } = self;
        match provider.collect(&mut out[..room]) {
            Ok(length) => {
                if let Some(pdu) = out.get(..length) {
                    tally.enter_whole(pdu);
                }
            }
            Err(refusal) => tally.mix(u64::from(refusal.number())),
        }
    }

    fn invoke(&mut self, octets: &[u8]) {
        let answer = self.provider.invoke(octets);
        self.tally.mix(invocation_code(answer));
    }

    fn invoke_any(&mut self) {
        let octets: &[u8] = match self.dice.roll() % 32 {
            0 => &UNBIND_SUSPEND,
            1 => &PEER_ABORT,
            2 => &BIND_OTHER,
            3 => &BIND_OLD,
            4 => &START_TURNED,
            5 => &[0x49, 0x56, 2],
            6..=9 => &STOP,
            10..=15 => &START_SPAN,
            16..=21 => &START_ALL,
            _ => &BIND,
        };
        self.invoke(octets);
    }

    // Binds and starts, from whatever phase: where an association is there already, this ends it.
    fn restart(&mut self) {
        self.invoke(&BIND);
        if self.dice.roll() % 2 == 0 {
            self.invoke(&START_ALL);
        } else {
            self.invoke(&START_SPAN);
        }
    }

    // One call, or a restart, on data that this number marks.
    fn step(&mut self, number: u32) {
        if let Some(first) = self.data.first_mut() {
            *first = (number % 256) as u8;
        }
        match self.dice.roll() % 64 {
            0..=19 => self.acquire(),
            20 => self.note(),
            21..=46 => {
                let code = move_code(self.provider.move_record());
                self.tally.mix(code);
            }
            47..=53 => {
                let code = tick_code(self.provider.tick());
                self.tally.mix(code);
            }
            54..=61 => self.collect(),
            62 => self.restart(),
            _ => self.invoke_any(),
        }
    }
}

// Some hundred calls on a fresh provider, entered in the tally; a play can come to a stop, with production halted and the
// frame buffer full. The quota never bears. It makes a type of provider that is not timed, so that those which are timed
// are compiled for the receiver's calls alone.
fn play_once(heap: Global, seed: u64, tally: Tally) -> Result<Tally, AllocError> {
    let mut frames = vec![in heap; 0; 10_000]?;
    let mut transport = vec![in heap; 0; 9_000]?;
    let provider = Provider::open(
        Packed::new(&mut frames),
        Quota::new(Packed::new(&mut transport), u32::MAX),
        Opening {
            buffer_size: BUFFER_SIZE,
            latency_limit: LATENCY_LIMIT,
            version: VERSION,
            identifier: &IDENTIFIER,
        },
    );
    let mut receiver = RandomReceiver {
        provider,
        dice: Dice(seed),
        data: vec![in heap; 7; DATA_ROOM]?,
        out: vec![in heap; 0; OUT_ROOM]?,
        tally,
    };
    for number in 0..CALLS {
        receiver.step(number);
    }
    Ok(receiver.tally)
}

pub fn play(rt: &HostRuntime) -> io::Result<()> {
    let mut tally = Tally::default();
    for seed in 0..PLAYS {
        tally = play_once(rt.alloc(), seed, tally)?;
    }
    print!(rt; "mixed")?;
    tally.show(rt)
}
