ghost use Rattle.std.specs.Prelude.{◌≡◌, length};
ghost use Rattle.queue.specs.Answers.{answer_of, capped, add_answer, add_list, first_answer, read_answer, read_buffer, drop_answer, rest};
ghost use Rattle.queue.specs.Changes.{Kept, Changed};

use crate::meaning::Meaning;
use crate::refusal::{Refusal, admit};

// The largest length of a record in a queue over lent octets: it is kept in two octets.
pub const LENGTH_LIMIT: usize = u16::MAX as usize;

// A queue of records, which are strings of octets. Every call takes the queue for writing, since a queue over a
// device may have to move something to answer; a question promises that its meaning is kept.
pub trait Queue: Meaning {
    // How many records are held, at most 4,294,967,295.
    fn count(&mut self) -> u32
        ensures answer { result ≡ capped (length (Self.Meaning.held self.old)) }
        ensures kept { Kept Self.Meaning self.old self.new };

    // The largest length of a record.
    fn largest(&mut self) -> usize
        ensures answer { result ≡ Self.Meaning.largest self.old }
        ensures kept { Kept Self.Meaning self.old self.new };

    // Whether a record of `n` octets would be taken now.
    fn room_for(&mut self, n: usize) -> bool
        ensures answer { result ≡ Self.Meaning.room self.old n }
        ensures kept { Kept Self.Meaning self.old self.new };

    // Whether a record of `n` octets is taken now, and else why not.
    fn admission(&mut self, n: usize) -> Result<(), Refusal>
        ensures answer { answer_of result ≡ add_answer (Self.Meaning.largest self.old) (Self.Meaning.room self.old) n }
        ensures kept { Kept Self.Meaning self.old self.new }
    {
        let largest = self.largest();
        let room = self.room_for(n);
        admit(n, largest, room)
    }

    // Puts a record behind those held.
    fn add(&mut self, octets: &[u8]) -> Result<(), Refusal>
        ensures answer { answer_of result ≡ add_answer (Self.Meaning.largest self.old) (Self.Meaning.room self.old) (length octets.now) }
        ensures left { Changed result Self.Meaning self.old self.new (add_list (Self.Meaning.largest self.old) (Self.Meaning.room self.old) (Self.Meaning.held self.old) octets.now) };

    // The oldest record's length.
    fn first_length(&mut self) -> Result<usize, Refusal>
        ensures answer { answer_of result ≡ first_answer (Self.Meaning.held self.old) }
        ensures kept { Kept Self.Meaning self.old self.new };

    // Copies the oldest record from octet `place` on into the front of `out`, as far as both go, and answers how
    // many octets that are.
    fn read_from(&mut self, place: usize, out: &mut [u8]) -> Result<usize, Refusal>
        ensures answer { answer_of result ≡ read_answer (Self.Meaning.held self.old) place (length out.old) }
        ensures buffer { out.new ≡ read_buffer (Self.Meaning.held self.old) place out.old }
        ensures kept { Kept Self.Meaning self.old self.new };

    // Removes the oldest record.
    fn drop(&mut self) -> Result<(), Refusal>
        ensures answer { answer_of result ≡ drop_answer (Self.Meaning.held self.old) }
        ensures left { Changed result Self.Meaning self.old self.new (rest (Self.Meaning.held self.old)) };
}
