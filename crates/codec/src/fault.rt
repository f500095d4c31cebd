ghost use Rattle.std.specs.Prelude.{◌≡◌, Some};
ghost use Rattle.codec.specs.Faults.{letter_of, fault_text};
ghost use Rattle.codec.specs.Fields.{fault};

use std::fmt;

// What is wrong with octets that should read as records or as an invocation.
#[derive(Clone, Copy, Debug, PartialEq, Eq)]
pub enum FaultKind {
    // The input ends too early.
    Short,
    // A mark is none of those expected.
    Mark,
    // A field has a value that it may not have.
    Value,
    // Octets are left over.
    Extra,
}

impl FaultKind {
    // The letter under which a kind of fault is answered: by a method, since it is printed with the place.
    pub fn letter(self) -> char
        ensures { result ≡ letter_of self }
    {
        match self {
            FaultKind::Short => 'S',
            FaultKind::Mark => 'M',
            FaultKind::Value => 'V',
            FaultKind::Extra => 'E',
        }
    }

    // A fault of this kind at a place.
    pub(crate) fn at(self, place: usize) -> Fault
        ensures { result ≡ fault self place }
    {
        Fault { kind: self, place }
    }
}

// A fault and its place, counted in octets from the start of the input.
#[derive(Clone, Copy, Debug, PartialEq, Eq)]
pub struct Fault {
    pub kind: FaultKind,
    pub place: usize,
}

// The letter of the kind and the place.
impl fmt::Display for Fault {
    ghost output = { λ f. Some (fault_text f) };

    fn fmt<W: fmt::Write>(&self, f: &mut fmt::Formatter<W>) -> fmt::Result {
        write!(f, "{} {}", self.kind.letter(), self.place)
    }
}
