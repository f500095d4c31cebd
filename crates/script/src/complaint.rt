ghost use Rattle.std.specs.Prelude.{◌≡◌, IfOk, MatchResult, Some, string_bytes};
ghost use Rattle.script.specs.Complaints.{complaint_text, faulty_line_text, missing_text, unknown_text, IsComplaint};
ghost use Rattle.script.specs.declared.complaint.Complaint.TheVariants.{Says, NoMemory};

use std::alloc::{AllocError, AllocFailed, Global};
use std::fmt;

// What is wrong with a line of a script, in words.
#[derive(Drop)]
pub enum Complaint {
    Says(String),
    NoMemory,
}

fn unknown_text(heap: Global, word: &[u8], expected: &str) -> Result<String, AllocError>
    ensures { IfOk result (λ s. string_bytes s ≡ unknown_text word.now expected.now) }
{
    let word = String::from_utf8_lossy(heap, word)?;
    format!(in heap; "`{word}` is not known here; expected {expected}")
}

impl Complaint {
    // That a word which is to say `wanted` is missing.
    pub fn missing(heap: Global, wanted: &str) -> Complaint
        ensures { IsComplaint result (missing_text wanted.now) }
    {
        let text: Result<String, AllocError> = format!(in heap;
            "{wanted} is missing at the end of the line"
        );
        Complaint::from(text)
    }

    // That a word is none of those expected.
    pub fn unknown(heap: Global, word: &[u8], expected: &str) -> Complaint
        ensures { IsComplaint result (unknown_text word.now expected.now) }
    {
        let text: Result<String, AllocError> = unknown_text(heap, word, expected);
        Complaint::from(text)
    }
}

// The text as a complaint, or that there was no memory for it.
impl From<Result<String, AllocError>> for Complaint {
    ghost from_gives = { λ text c. MatchResult text (λ s. c ≡ Says s) (λ _. c ≡ NoMemory) };

    fn from(text: Result<String, AllocError>) -> Complaint {
        match text {
            Ok(text) => Complaint::Says(text),
            Err(_) => Complaint::NoMemory,
        }
    }
}

impl From<AllocError> for Complaint {
    ghost from_gives = { λ _ c. c ≡ NoMemory };

    fn from(_: AllocError) -> Complaint {
        Complaint::NoMemory
    }
}

impl<T: Drop> From<AllocFailed<T>> for Complaint {
    ghost from_gives = { λ _ c. c ≡ NoMemory };

    fn from(_: AllocFailed<T>) -> Complaint {
        Complaint::NoMemory
    }
}

impl fmt::Display for Complaint {
    ghost output = { λ c. Some (complaint_text c) };

    fn fmt<W: fmt::Write>(&self, f: &mut fmt::Formatter<W>) -> fmt::Result {
        match self {
            Complaint::Says(text) => write!(f, "{text}"),
            Complaint::NoMemory => write!(f, "there is not enough memory for it"),
        }
    }
}

// A faulty line, by its number, and what is wrong with it.
#[derive(Drop)]
pub struct FaultyLine {
    pub number: u64,
    pub complaint: Complaint,
}

impl fmt::Display for FaultyLine {
    ghost output = { λ l. Some (faulty_line_text l) };

    fn fmt<W: fmt::Write>(&self, f: &mut fmt::Formatter<W>) -> fmt::Result {
        let number = self.number;
        let complaint = &self.complaint;
        write!(f, "line {number}: {complaint}")
    }
}
