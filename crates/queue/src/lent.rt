use crate::interface::Queue;
use crate::meaning::Meaning;
use crate::refusal::Refusal;

// A queue that is lent is a queue.
impl<'q, Q: Meaning> Meaning for &'q mut Q {
    ghost held = { λ s. Q.Meaning.held s.now };

    ghost largest = { λ s. Q.Meaning.largest s.now };

    ghost room = { λ s. Q.Meaning.room s.now };

    ghost vacant = { λ s. Q.Meaning.vacant s.now };

    ghost bounded = { λ s. Q.Meaning.bounded s.now };
}

impl<'q, Q: Queue> Queue for &'q mut Q {
    fn count(&mut self) -> u32 {
        (**self).count()
    }

    fn largest(&mut self) -> usize {
        (**self).largest()
    }

    fn room_for(&mut self, n: usize) -> bool {
        (**self).room_for(n)
    }

    fn add(&mut self, octets: &[u8]) -> Result<(), Refusal> {
        (**self).add(octets)
    }

    fn first_length(&mut self) -> Result<usize, Refusal> {
        (**self).first_length()
    }

    fn read_from(&mut self, place: usize, out: &mut [u8]) -> Result<usize, Refusal> {
        (**self).read_from(place, out)
    }

    fn drop(&mut self) -> Result<(), Refusal> {
        (**self).drop()
    }
}
