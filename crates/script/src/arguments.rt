ghost use Rattle.std.specs.Prelude.{◌≡◌, ℕ, ◌≤◌, ◌<◌, List, ◌++◌, OnOk, OnErr, IfOk, IfErr, IsSome, Ok, Some, None, codes};
ghost use Rattle.script.specs.Arguments.{octets_left, octets_said};
ghost use Rattle.script.specs.Complaints.{missing_text, unknown_text, IsComplaint};
ghost use Rattle.script.specs.Numbers.{number_answer};
ghost use Rattle.script.specs.Text.{first_word, after_word};

use crate::complaint::Complaint;
use crate::hexadecimal;
use crate::number::{NumberFault, NumberType, number};
use crate::words::Words;
use std::alloc::{AllocError, Global};

// The words of a line that say what a call is asked with, and the memory for what they say.
#[derive(Drop)]
pub struct Arguments<'a> {
    words: Words<'a>,
    heap: Global,
}

impl<'a> Arguments<'a> {
    pub fn new(words: Words<'a>, heap: Global) -> Arguments<'a>
        ensures { result.words.rest.now ≡ words.entry.rest.now }
    {
        Arguments { words, heap }
    }

    // The next word, which is to say `wanted`.
    pub fn word(&mut self, wanted: &str) -> Result<&'a [u8], Complaint>
        ensures shorter { OnOk result (octets_left self.new < octets_left self.old) }
        ensures read { IfOk result (λ w. first_word self.old.words.rest.now ≡ Some w.now) }
        ensures missing { OnErr result (first_word self.old.words.rest.now ≡ None) }
        ensures told { IfErr result (λ c. IsComplaint c (missing_text wanted.now)) }
        ensures rest { self.new.words.rest.now ≡ after_word self.old.words.rest.now }
    {
        self.words
            .next()
            .ok_or_else(|| Complaint::missing(self.heap, wanted))
    }

    // The next word as a number of at most `most`.
    pub fn number_to(&mut self, wanted: &str, most: u64) -> Result<u64, Complaint>
        ensures shorter { OnOk result (octets_left self.new < octets_left self.old) }
        ensures within { IfOk result (λ v. v ≤ most) }
        ensures said { IfOk result (λ v. (w : List ℕ) × (first_word self.old.words.rest.now ≡ Some w) × (number_answer w most ≡ Ok v)) }
        ensures rest { self.new.words.rest.now ≡ after_word self.old.words.rest.now }
    {
        let word = self.word(wanted)?;
        number(word, most).map_err(|fault| {
            let text: Result<String, AllocError> = self.number_text(wanted, word, most, fault);
            Complaint::from(text)
        })
    }

    // The next word as a number of a type.
    pub fn number<N: NumberType>(&mut self, wanted: &str) -> Result<N, Complaint>
        ensures shorter { OnOk result (octets_left self.new < octets_left self.old) }
        ensures within { IfOk result (λ n. (v : ℕ) × (v ≤ N.MOST) × N.try_from_gives v (Ok n)) }
        ensures said { IfOk result (λ n. (w : List ℕ) × (v : ℕ) × (first_word self.old.words.rest.now ≡ Some w) × (number_answer w N.MOST ≡ Ok v) × N.try_from_gives v (Ok n)) }
        ensures rest { self.new.words.rest.now ≡ after_word self.old.words.rest.now }
    {
        let value = self.number_to(wanted, N::MOST)?;
        N::try_from(value).map_err(|_| {
            let text: Result<String, AllocError> = self.past_text(wanted, value, N::MOST);
            Complaint::from(text)
        })
    }

    // That a number is past the largest of its type, which no number is that was taken as one of at most that.
    fn past_text(&self, wanted: &str, value: u64, most: u64) -> Result<String, AllocError> {
        format!(in self.heap; "{wanted} is {value}, but at most {most} is taken")
    }

    // That a word is not a number that is taken.
    fn number_text(
        &self,
        wanted: &str,
        word: &[u8],
        most: u64,
        fault: NumberFault,
    ) -> Result<String, AllocError> {
        let word = String::from_utf8_lossy(self.heap, word)?;
        match fault {
            NumberFault::NotDecimal => format!(in self.heap;
                "{wanted} is `{word}`, which is not a decimal number"
            ),
            NumberFault::TooLarge => format!(in self.heap;
                "{wanted} is {word}, but at most {most} is taken"
            ),
        }
    }

    // The next word as octets by two hexadecimal digits each, or `-` for none.
    pub fn octets(&mut self, wanted: &str) -> Result<Vec<u8>, Complaint>
        ensures shorter { OnOk result (octets_left self.new < octets_left self.old) }
        ensures said { IfOk result (λ v. (w : List ℕ) × (first_word self.old.words.rest.now ≡ Some w) × (octets_said w ≡ Some v.items)) }
        ensures rest { self.new.words.rest.now ≡ after_word self.old.words.rest.now }
    {
        let word = self.word(wanted)?;
        if let b"-" = word {
            return Ok(Vec::new(self.heap));
        }
        hexadecimal::octets(self.heap, word)?.ok_or_else(|| {
            let text: Result<String, AllocError> = self.octets_text(wanted, word);
            Complaint::from(text)
        })
    }

    // That a word does not say octets.
    fn octets_text(&self, wanted: &str, word: &[u8]) -> Result<String, AllocError> {
        let word = String::from_utf8_lossy(self.heap, word)?;
        format!(in self.heap;
            "{wanted} is `{word}`, which is not `-` and not octets of two hexadecimal digits each"
        )
    }

    // That no word is left.
    pub fn end(&mut self) -> Result<(), Complaint>
        ensures ok { OnOk result (first_word self.old.words.rest.now ≡ None) }
        ensures left_over { OnErr result (IsSome (first_word self.old.words.rest.now)) }
    {
        if let Some(word) = self.words.next() {
            let text: Result<String, AllocError> = self.left_over_text(word);
            return Err(Complaint::from(text));
        }
        Ok(())
    }

    // That a word is left over.
    fn left_over_text(&self, word: &[u8]) -> Result<String, AllocError> {
        let word = String::from_utf8_lossy(self.heap, word)?;
        format!(in self.heap; "`{word}` is a word too many")
    }

    // What is wrong with the line, in these words.
    pub fn complaint(&self, text: &str) -> Complaint
        ensures { IsComplaint result text.now }
    {
        let text: Result<String, AllocError> = String::from_str(self.heap, text);
        Complaint::from(text)
    }

    // That a word of the line is none of those expected.
    pub fn unknown(&self, word: &[u8], expected: &str) -> Complaint
        ensures { IsComplaint result (unknown_text word.now expected.now) }
    {
        Complaint::unknown(self.heap, word, expected)
    }
}
