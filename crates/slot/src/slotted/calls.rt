ghost use Rattle.std.specs.Prelude.{◌≡◌, ◌<◌, ◌≤◌, [], ◌∷◌, ◌++◌, length};
ghost use Rattle.ring.specs.Rings.{elements};
ghost use Rattle.slot.specs.Slots.{slots_of};
ghost use Rattle.slot.specs.Placing.{onward};
ghost use Rattle.slot.specs.Holding.{held_in, slots_in, width_in};

use super::Slotted;
use crate::note::SlotNote;
use ring::memory::Memory;
use ring::ring::Ring;

// How many slots there are.
fn slots_of(notes: usize, octets: usize, width: usize) -> usize
    ensures { result ≡ slots_of notes octets width }
{
    if width == 0 {
        0
    } else {
        notes.min(octets / width)
    }
}

// The slot after this one, of `slots`, going round.
pub(crate) fn onward(slots: usize, slot: usize) -> usize
    requires { slot < slots }
    ensures { result ≡ onward slots slot }
{
    if slot + 1 < slots { slot + 1 } else { 0 }
}

impl<'a> Slotted<'a> {
    // An empty queue over these octets, cut into slots of this width, and notes.
    pub fn new(octets: &'a mut [u8], notes: &'a mut [SlotNote], width: usize) -> Slotted<'a>
        ensures list { held_in result ≡ [] }
        ensures slots { slots_in result ≡ slots_of (length notes.old) (length octets.old) width }
        ensures width { width_in result ≡ width }
    {
        let slots = slots_of(notes.len(), octets.len(), width);
        Slotted {
            octets: Memory::new(octets),
            notes: Ring::new(notes),
            slots,
            width,
            first: 0,
            next: 0,
        }
    }

    // Puts a record, for which there is a slot, behind those held.
    pub(crate) fn put(&mut self, octets: &[u8])
        requires free { length (elements self.old.notes) < slots_in self.old }
        requires short { length octets.now ≤ width_in self.old }
        ensures list { held_in self.new ≡ held_in self.old ++ (octets.now ∷ []) }
        ensures slots { slots_in self.new ≡ slots_in self.old }
        ensures width { width_in self.new ≡ width_in self.old }
    {
        let next = self.next;
        let place = next * self.width;
        let _ = self.octets.write_part(place, octets);
        let _ = self.notes.add(SlotNote {
            place,
            length: octets.len(),
        });
        self.next = onward(self.slots, next);
    }
}
