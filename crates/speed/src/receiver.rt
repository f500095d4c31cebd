use crate::load::Load;
use crate::tally::Tally;
use codec::time::TimeNumbers;
use provider::answer::{MoveAnswer, TickAnswer};
use provider::provider::Provider;
use provider::settings::Opening;
use queue::interface::Queue;
use std::alloc::{AllocError, Global};

pub const IDENTIFIER: [u8; 3] = [0x61, 0x62, 0x63];

pub const VERSION: u32 = 2;

// Ticks that a record may wait. While frames come in each round, every transfer buffer is full before.
const LATENCY_LIMIT: u32 = 10;

// Rounds from tick to tick.
const TICK_ROUNDS: u32 = 32;

// Invoke-ID 1, version 2, the identifier.
pub const BIND: [u8; 10] = [0x49, 0x56, 100, 0, 1, 2, 3, 0x61, 0x62, 0x63];

// Invoke-ID 2, good frames only, from the start of day 1 to the start of day 2, so that both times are compared.
const START: [u8; 24] = [
    0x49, 0x56, 0, 0, 2, 0, 1, 0, 1, 0, 0, 0, 0, 0, 0, 1, 0, 2, 0, 0, 0, 0, 0, 0,
];

// A receiver at work: its provider, the data of the frame that comes, the buffer that PDUs are collected into, and what
// it has done.
#[derive(Drop)]
pub struct Receiver<F, T> {
    provider: Provider<F, T>,
    data: Vec<u8>,
    out: Vec<u8>,
    pub tally: Tally,
}

// Gives each frame other data at both ends, so that a frame in another's place changes the sum.
fn mark(data: &mut [u8], number: u32) {
    if let Some(last) = data.last_mut() {
        *last = (number / 256 % 256) as u8;
    }
    if let Some(first) = data.first_mut() {
        *first = (number % 256) as u8;
    }
}

impl<F: Queue + Drop, T: Queue + Drop> Receiver<F, T> {
    // Opens a provider over two queues and begins a run, unless something is refused.
    pub fn begin(
        heap: Global,
        frames: F,
        transport: T,
        load: &Load,
    ) -> Result<Option<Receiver<F, T>>, AllocError> {
        let mut provider = Provider::open(
            frames,
            transport,
            Opening {
                buffer_size: load.buffer_size,
                latency_limit: LATENCY_LIMIT,
                version: VERSION,
                identifier: &IDENTIFIER,
            },
        );
        if provider.invoke(&BIND).is_err() || provider.invoke(&START).is_err() {
            return Ok(None);
        }
        Ok(Some(Receiver {
            provider,
            data: vec![in heap; 7; load.length]?,
            out: vec![in heap; 0; load.longest_pdu()]?,
            tally: Tally::default(),
        }))
    }

    // A good frame comes, at a time of day 1.
    pub fn receive(&mut self, number: u32) {
        mark(&mut self.data, number);
        let time = TimeNumbers {
            day: 1,
            millisecond: number % 86_400_000,
            microsecond: number % 1000,
        };
        let Receiver {
            provider,
            data,
            tally,
            ..
        } = self;
        tally.acquired(provider.acquire(0, time, data).is_ok());
    }

    fn collect<E: Fn(&mut Tally, &[u8])>(&mut self, enter: &E)
        requires { E.IsAlwaysCallable enter.now }
    {
        let Receiver {
            provider,
            out,
            tally,
            ..
        } = self;
        if let Ok(length) = provider.collect(out) {
            if let Some(pdu) = out.get(..length) {
                enter(tally, pdu);
            }
        }
    }

    // A batch of rounds: a frame comes, a record moves on, and what is sent is collected and entered; now and then comes
    // a tick.
    pub(crate) fn serve<E: Fn(&mut Tally, &[u8])>(&mut self, rounds: u32, enter: E)
        requires { E.IsAlwaysCallable enter }
    {
        for number in 0..rounds {
            self.receive(number);
            if self.provider.move_record() == MoveAnswer::Sent {
                self.collect(&enter);
                let _ = self.provider.move_record();
            }
            if number % TICK_ROUNDS == 0 && self.provider.tick() == TickAnswer::Sent {
                self.collect(&enter);
            }
        }
    }
}
