use codec::fault::Fault;

mod numbers;

// What a move did.
#[derive(Clone, Copy, Debug, PartialEq, Eq)]
pub enum MoveAnswer {
    Idle,
    Sent,
    Waiting,
    Ended,
    Moved,
    PassedOver,
}

// What a tick did.
#[derive(Clone, Copy, Debug, PartialEq, Eq)]
pub enum TickAnswer {
    Quiet,
    Sent,
    Waiting,
}

// Why an opening is refused.
#[derive(Clone, Copy, Debug, PartialEq, Eq)]
pub enum OpeningRefusal {
    SettingsOutOfRange,
    QueueNotEmpty,
    QueueTooNarrow,
}

// Why an acquisition or a note is refused.
#[derive(Clone, Copy, Debug, PartialEq, Eq)]
pub enum ReceptionRefusal {
    Closed,
    Quality,
    Time,
    DataLength,
    NoRoom,
    NoteTypeOrStatus,
}

// Why a collection is refused.
#[derive(Clone, Copy, Debug, PartialEq, Eq)]
pub enum CollectionRefusal {
    NothingWaits,
    BufferTooShort,
}

// What an accepted invocation did.
#[derive(Clone, Copy, Debug, PartialEq, Eq)]
pub enum Performed {
    Started { id: u16 },
    Stopped { id: u16 },
    Bound { id: u16, version: u8 },
    Unbound { id: u16 },
    Aborted { lost: usize },
}

// Why an invocation is refused; the two that end an association tell how many accepted records are lost. Not an
// `InvocationFault` with a number beside it, since no other refusal has such a number.
#[derive(Clone, Copy, Debug, PartialEq, Eq)]
pub enum InvocationRefusal {
    Closed,
    Undecodable { fault: Fault, lost: usize },
    ProtocolError { lost: usize },
    AccessDenied,
    VersionNotSupported,
    InvalidStopTime,
    OutOfService,
    NoAssociation,
}
