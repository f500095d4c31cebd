ghost use Rattle.std.specs.Prelude.{length, IfSome, IsTrue, ◌≡◌, ◌<◌};
ghost use Rattle.std.specs.Iterator.{at_most};
ghost use Rattle.script.specs.Text.{begins_call};

use crate::arguments::Arguments;
use crate::lines::{Line, Lines};
use crate::words::Words;
use std::alloc::Global;

// A line that is neither empty nor a comment: its number, its first word, and the words behind that.
#[derive(Drop)]
pub struct CallLine<'a> {
    pub number: u64,
    pub word: &'a [u8],
    pub arguments: Arguments<'a>,
}

impl<'a> CallLine<'a> {
    // The call that a line says, or none where the line is empty or a comment.
    fn of(line: Line<'a>, heap: Global) -> Option<CallLine<'a>>
        ensures { IfSome result (λ l. IsTrue (begins_call l.word.now)) }
    {
        let mut words = Words::new(line.text);
        match words.next()? {
            [b'#', ..] => None,
            word => Some(CallLine {
                number: line.number,
                word,
                arguments: Arguments::new(words, heap),
            }),
        }
    }
}

impl<'a> Lines<'a> {
    // The next line that says a call, or none at the end of the text.
    pub fn next_call(&mut self, heap: Global) -> Option<CallLine<'a>>
        ensures begins { IfSome result (λ l. IsTrue (begins_call l.word.now)) }
        ensures shorter { IfSome result (λ _. length self.new.rest.now < length self.old.rest.now) }
    {
        self.find_map(|line| CallLine::of(line, heap))
    }
}

// The lines of a script that say a call, from the first on.
#[derive(Drop)]
pub struct CallLines<'a> {
    lines: Lines<'a>,
    heap: Global,
}

impl<'a> CallLines<'a> {
    pub fn new(text: &'a [u8], heap: Global) -> CallLines<'a>
        ensures { result.lines.rest.now ≡ text.now }
    {
        CallLines {
            lines: Lines::new(text),
            heap,
        }
    }
}

impl<'a> Iterator for CallLines<'a> {
    type Item = CallLine<'a>;

    ghost next_gives = { λ s r t. IfSome r (λ l. IsTrue (begins_call l.word.now)) };

    ghost remaining = { λ s. at_most (length s.lines.rest.now) };

    fn next(&mut self) -> Option<CallLine<'a>> {
        let heap = self.heap;
        self.lines.next_call(heap)
    }
}
