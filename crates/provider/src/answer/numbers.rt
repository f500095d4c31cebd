ghost use Rattle.std.specs.Prelude.{◌≡◌};
ghost use Rattle.provider.specs.Answers.{opening_refusal_number, reception_number, collection_number, invocation_number};

use super::{CollectionRefusal, InvocationRefusal, OpeningRefusal, ReceptionRefusal};

// Each refusal has its number by a method, whose name says what the number is.
impl OpeningRefusal {
    // The number of the refusal.
    pub fn number(self) -> u8
        ensures { result ≡ opening_refusal_number self }
    {
        match self {
            OpeningRefusal::SettingsOutOfRange => 1,
            OpeningRefusal::QueueNotEmpty => 2,
            OpeningRefusal::QueueTooNarrow => 3,
        }
    }
}

impl ReceptionRefusal {
    // The number of the refusal.
    pub fn number(self) -> u8
        ensures { result ≡ reception_number self }
    {
        match self {
            ReceptionRefusal::Closed => 4,
            ReceptionRefusal::Quality => 10,
            ReceptionRefusal::Time => 11,
            ReceptionRefusal::DataLength => 12,
            ReceptionRefusal::NoRoom => 13,
            ReceptionRefusal::NoteTypeOrStatus => 14,
        }
    }
}

impl CollectionRefusal {
    // The number of the refusal.
    pub fn number(self) -> u8
        ensures { result ≡ collection_number self }
    {
        match self {
            CollectionRefusal::NothingWaits => 30,
            CollectionRefusal::BufferTooShort => 34,
        }
    }
}

impl InvocationRefusal {
    // The number of the refusal.
    pub fn number(self) -> u8
        ensures { result ≡ invocation_number self }
    {
        match self {
            InvocationRefusal::Closed => 4,
            InvocationRefusal::Undecodable { .. } => 20,
            InvocationRefusal::ProtocolError { .. } => 21,
            InvocationRefusal::AccessDenied => 22,
            InvocationRefusal::VersionNotSupported => 23,
            InvocationRefusal::InvalidStopTime => 24,
            InvocationRefusal::OutOfService => 25,
            InvocationRefusal::NoAssociation => 26,
        }
    }
}
