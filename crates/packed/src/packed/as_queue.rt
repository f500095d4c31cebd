ghost use Rattle.packed.specs.Packing.{packed_largest, packed_room};
ghost use Rattle.packed.specs.Holding.{held_in, octets_in};
ghost use Rattle.packed.specs.Lawful.{packed_vacant, packed_bounded};

use super::Packed;
use queue::interface::{LENGTH_LIMIT, Queue};
use queue::meaning::Meaning;
use queue::refusal::Refusal;

// The octets of a length.
const HEAD_SIZE: usize = 2;

impl<'a> Meaning for Packed<'a> {
    ghost held = { held_in };

    ghost largest = { λ q. packed_largest (octets_in q) };

    ghost room = { λ q. packed_room (octets_in q) (held_in q) };

    ghost vacant = { λ q. packed_vacant (octets_in q) (held_in q) };

    ghost bounded = { λ q. packed_bounded (octets_in q) (held_in q) };
}

impl<'a> Queue for Packed<'a> {
    fn count(&mut self) -> u32 {
        u32::try_from(self.count).unwrap_or(u32::MAX)
    }

    fn largest(&mut self) -> usize {
        self.ring.size().saturating_sub(HEAD_SIZE).min(LENGTH_LIMIT)
    }

    #[tactic(auto, using(crate::proofs::Packs::room_left))]
    fn room_for(&mut self, n: usize) -> bool {
        0 < n && n <= self.largest() && n + HEAD_SIZE <= self.ring.size() - self.ring.count()
    }

    // Each queue puts in its own way; that it admits first is all that is common.
    fn add(&mut self, octets: &[u8]) -> Result<(), Refusal> {
        self.admission(octets.len())?;
        self.put(octets);
        Ok(())
    }

    fn first_length(&mut self) -> Result<usize, Refusal> {
        Ok(self.oldest_length()? as usize)
    }

    #[tactic(auto, using(crate::proofs::Packs::read_out, crate::proofs::Packs::read_beyond))]
    fn read_from(&mut self, place: usize, out: &mut [u8]) -> Result<usize, Refusal> {
        let n = self.oldest_length()? as usize;
        if place > n {
            return Err(Refusal::Place);
        }
        let most = (n - place).min(out.len());
        let _ = self.ring.read_run(place + HEAD_SIZE, &mut out[..most]);
        Ok(most)
    }

    fn drop(&mut self) -> Result<(), Refusal> {
        let n = self.oldest_length()? as usize;
        let count = self.count;
        let _ = self.ring.drop_run(n + HEAD_SIZE);
        self.count = count - 1;
        Ok(())
    }
}
