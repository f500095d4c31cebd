ghost use Rattle.std.specs.Prelude.{◌≡◌, length, IfSome, Some};
ghost use Rattle.std.specs.Iterator.{at_most, UpTo};
ghost use Rattle.std.specs.Iterator.SizeHint.{IsWithinCount};
ghost use Rattle.script.specs.Lines.{first_line, after_line, line_text, number_after, Numbered};

use crate::cut::cut_at_first;

// A line with its number, from 1 on.
#[derive(Clone, Copy)]
pub struct Line<'a> {
    pub number: u64,
    pub text: &'a [u8],
}

// The lines of a text, from the first on.
#[derive(Drop)]
pub struct Lines<'a> {
    rest: &'a [u8],
    number: u64,
}

impl<'a> Lines<'a> {
    pub fn new(text: &'a [u8]) -> Lines<'a>
        ensures rest { result.rest.now ≡ text.now }
        ensures number { result.number ≡ 0 }
    {
        Lines {
            rest: text,
            number: 0,
        }
    }
}

impl<'a> Iterator for Lines<'a> {
    type Item = Line<'a>;

    ghost next_gives = { λ s r t. (line_text r ≡ first_line s.rest.now) × (t.rest.now ≡ after_line s.rest.now) × (t.number ≡ number_after s.number s.rest.now) × Numbered r t.number };

    // A line has an octet at least, its text's or its end.
    ghost remaining = { λ s. at_most (length s.rest.now) };

    fn next(&mut self) -> Option<Line<'a>> {
        if self.rest.is_empty() {
            return None;
        }
        let (text, behind) = cut_at_first(self.rest, |octet| octet == b'\n');
        let (_, rest) = behind.split_at(behind.len().min(1));
        self.rest = rest;
        self.number = self.number.saturating_add(1);
        Some(Line {
            number: self.number,
            text,
        })
    }

    // No more than the octets that are left.
    fn size_hint(&self) -> (usize, Option<usize>)
        ensures lower { IsWithinCount result.0 (at_most (length self.now.rest.now)) }
        ensures upper { IfSome result.1 (UpTo (at_most (length self.now.rest.now))) }
        ensures octets { result.1 ≡ Some (length self.now.rest.now) }
    {
        (0, Some(self.rest.len()))
    }
}
