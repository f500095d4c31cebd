ghost use Rattle.std.specs.Prelude.{◌≡◌};
ghost use Rattle.replay.specs.Events.{call_of, call_owned};

use codec::time::TimeNumbers;

// A call of a provider, with what it is given; `O` holds octets. The numbers of a quality, a time, a type and a status
// are unchecked; a collection is into a buffer of so many octets.
#[derive(Clone, Copy, Drop)]
pub enum Call<O> {
    Acquire {
        quality: u8,
        time: TimeNumbers,
        data: O,
    },
    Note {
        kind: u8,
        time: TimeNumbers,
        status: u8,
    },
    Move,
    Tick,
    Collect {
        capacity: usize,
    },
    Invoke {
        octets: O,
    },
}

impl Call<Vec<u8>> {
    // The call, with its octets lent.
    pub fn lent(&self) -> Call<&[u8]>
        ensures { call_of result ≡ call_owned self.now }
    {
        match self {
            Call::Acquire {
                quality,
                time,
                data,
            } => Call::Acquire {
                quality: *quality,
                time: *time,
                data: data.as_slice(),
            },
            Call::Note { kind, time, status } => Call::Note {
                kind: *kind,
                time: *time,
                status: *status,
            },
            Call::Move => Call::Move,
            Call::Tick => Call::Tick,
            Call::Collect { capacity } => Call::Collect {
                capacity: *capacity,
            },
            Call::Invoke { octets } => Call::Invoke {
                octets: octets.as_slice(),
            },
        }
    }
}
