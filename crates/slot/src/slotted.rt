ghost use Rattle.std.specs.Prelude.{◌≡◌, ◌*◌, ◌<◌, ◌≤◌, true, length};
ghost use Rattle.ring.specs.Memories.{contents};
ghost use Rattle.ring.specs.Rings.{elements, size};
ghost use Rattle.slot.specs.Placing.{in_turn, slot_after};

use crate::note::SlotNote;
use ring::memory::Memory;
use ring::ring::Ring;

pub mod as_queue;
pub mod calls;

// Records in slots of one width, with a note of each, oldest first. They take the slots in turn: the oldest is in
// the slot `first`, and the next record goes into the slot `next`.
#[derive(Drop)]
pub struct Slotted<'a> {
    octets: Memory<'a, u8>,
    notes: Ring<'a, SlotNote>,
    slots: usize,
    width: usize,
    first: usize,
    next: usize,
    ghost placed: { in_turn slots width first (elements notes) ≡ true },
    ghost within: { slots * width ≤ length (contents octets) },
    ghost noted: { slots ≤ size notes },
    ghost few: { length (elements notes) ≤ slots },
    ghost begins: { 0 < slots → first < slots },
    ghost follows: { next ≡ slot_after slots first (length (elements notes)) },
}
