ghost use Rattle.std.specs.Prelude.{◌≡◌};
ghost use Rattle.queue.specs.Answers.{answer_of};
ghost use Rattle.ring.specs.Rings.{elements};
ghost use Rattle.slot.specs.Slots.{slot_largest, slot_room, oldest_note};
ghost use Rattle.slot.specs.Holding.{held_in, slots_in, width_in};
ghost use Rattle.slot.specs.Lawful.{slot_vacant, slot_bounded};

use super::Slotted;
use super::calls::onward;
use crate::note::SlotNote;
use queue::interface::{LENGTH_LIMIT, Queue};
use queue::meaning::Meaning;
use queue::refusal::Refusal;

impl<'a> Slotted<'a> {
    // The note of the oldest record.
    fn oldest(&self) -> Result<SlotNote, Refusal>
        ensures { answer_of result ≡ oldest_note (elements self.now.notes) }
    {
        self.notes.read(0).map_err(|_| Refusal::Empty)
    }
}

impl<'a> Meaning for Slotted<'a> {
    ghost held = { held_in };

    ghost largest = { λ q. slot_largest (slots_in q) (width_in q) };

    ghost room = { λ q. slot_room (slots_in q) (width_in q) (held_in q) };

    ghost vacant = { λ q. slot_vacant (slots_in q) (width_in q) (held_in q) };

    ghost bounded = { λ q. slot_bounded (slots_in q) (width_in q) (held_in q) };
}

impl<'a> Queue for Slotted<'a> {
    fn count(&mut self) -> u32 {
        u32::try_from(self.notes.count()).unwrap_or(u32::MAX)
    }

    fn largest(&mut self) -> usize {
        if self.slots == 0 {
            0
        } else {
            self.width.min(LENGTH_LIMIT)
        }
    }

    fn room_for(&mut self, n: usize) -> bool {
        0 < n && n <= self.largest() && self.notes.count() < self.slots
    }

    // Each queue puts in its own way; that it admits first is all that is common.
    fn add(&mut self, octets: &[u8]) -> Result<(), Refusal> {
        self.admission(octets.len())?;
        self.put(octets);
        Ok(())
    }

    #[tactic(auto, using(crate::proofs::Oldest::oldest_length))]
    fn first_length(&mut self) -> Result<usize, Refusal> {
        Ok(self.oldest()?.length)
    }

    #[tactic(auto, using(crate::proofs::Oldest::read_out, crate::proofs::Oldest::read_number, crate::proofs::Oldest::read_beyond))]
    fn read_from(&mut self, place: usize, out: &mut [u8]) -> Result<usize, Refusal> {
        let note = self.oldest()?;
        if place > note.length {
            return Err(Refusal::Place);
        }
        let most = (note.length - place).min(out.len());
        let _ = self.octets.read_part(note.place + place, &mut out[..most]);
        Ok(most)
    }

    fn drop(&mut self) -> Result<(), Refusal> {
        self.notes.drop()?;
        self.first = onward(self.slots, self.first);
        Ok(())
    }
}
