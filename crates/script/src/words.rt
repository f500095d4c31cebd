ghost use Rattle.std.specs.Prelude.{◌≡◌, length, IfSome, Some};
ghost use Rattle.std.specs.Iterator.{at_most, UpTo};
ghost use Rattle.std.specs.Iterator.SizeHint.{IsWithinCount};
ghost use Rattle.script.specs.Text.{first_word, after_word, text_in};

use crate::cut::{cut_at_first, is_blank};

// The words of a line, from the first on.
#[derive(Drop)]
pub struct Words<'a> {
    rest: &'a [u8],
}

impl<'a> Words<'a> {
    pub fn new(line: &'a [u8]) -> Words<'a>
        ensures { result.rest.now ≡ line.now }
    {
        Words { rest: line }
    }
}

impl<'a> Iterator for Words<'a> {
    type Item = &'a [u8];

    ghost next_gives = { λ s r t. (text_in r ≡ first_word s.rest.now) × (t.rest.now ≡ after_word s.rest.now) };

    // A word has an octet at least.
    ghost remaining = { λ s. at_most (length s.rest.now) };

    fn next(&mut self) -> Option<&'a [u8]> {
        let (_, from) = cut_at_first(self.rest, |octet| !is_blank(octet));
        let (word, rest) = cut_at_first(from, is_blank);
        self.rest = rest;
        if word.is_empty() { None } else { Some(word) }
    }

    // No more than the octets that are left.
    fn size_hint(&self) -> (usize, Option<usize>)
        ensures lower { IsWithinCount result.0 (at_most (length self.now.rest.now)) }
        ensures upper { IfSome result.1 (UpTo (at_most (length self.now.rest.now))) }
        ensures octets { result.1 ≡ Some (length self.now.rest.now) }
    {
        (0, Some(self.rest.len()))
    }
}
