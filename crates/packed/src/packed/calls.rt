ghost use Rattle.std.specs.Prelude.{◌≡◌, ◌+◌, ◌≤◌, [], ◌∷◌, ◌++◌, length};
ghost use Rattle.queue.specs.Answers.{answer_of, first_answer, length_limit};
ghost use Rattle.ring.specs.Rings.{elements};
ghost use Rattle.packed.specs.Packing.{head_size};
ghost use Rattle.packed.specs.Holding.{held_in, octets_in};

use super::Packed;
use queue::refusal::Refusal;
use ring::ring::Ring;

impl<'a> Packed<'a> {
    // An empty queue over these octets.
    pub fn new(octets: &'a mut [u8]) -> Packed<'a>
        ensures list { held_in result ≡ [] }
        ensures same { octets_in result ≡ length octets.old }
    {
        Packed {
            ring: Ring::new(octets),
            count: 0,
        }
    }

    // Puts a record, for which there is room, behind those held.
    pub(crate) fn put(&mut self, octets: &[u8])
        requires fits { length (elements self.old.ring) + (length octets.now + head_size) ≤ octets_in self.old }
        requires length { length octets.now ≤ length_limit }
        ensures list { held_in self.new ≡ held_in self.old ++ (octets.now ∷ []) }
        ensures same { octets_in self.new ≡ octets_in self.old }
    {
        let head = (octets.len() as u16).to_be_bytes();
        let count = self.count;
        let _ = self.ring.add_run(&head);
        let _ = self.ring.add_run(octets);
        self.count = count + 1;
    }

    // The oldest record's length.
    pub(crate) fn oldest_length(&self) -> Result<u16, Refusal>
        ensures { answer_of result ≡ first_answer (held_in self.now) }
    {
        if self.count == 0 {
            return Err(Refusal::Empty);
        }
        let mut head = [0, 0];
        let _ = self.ring.read_run(0, &mut head);
        Ok(u16::from_be_bytes(head))
    }
}
