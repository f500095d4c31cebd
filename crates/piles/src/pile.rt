ghost use Rattle.piles.specs.Piles.{IsBottomOver, IsHalfOver, IsPileOver};

use crate::memory::{BottomMemory, HalfMemory, PileMemory};
use layers::quota::Quota;
use layers::tandem::Tandem;
use packed::packed::Packed;
use slot::slotted::Slotted;

// Each bottom is a slot queue and a packed queue in tandem, of which one is hollow.
pub type Bottom<'a> = Quota<Tandem<Slotted<'a>, Packed<'a>>>;

pub type Half<'a> = Quota<Tandem<Bottom<'a>, Bottom<'a>>>;

pub type Pile<'a> = Quota<Tandem<Half<'a>, Half<'a>>>;

impl BottomMemory {
    // The queue over this memory.
    pub fn queue(&mut self) -> Bottom<'_>
        ensures { IsBottomOver self.old result }
    {
        // A quota of 4,294,967,295 records is none.
        let limit = self.limit.unwrap_or(u32::MAX);
        let width = self.slot_width;
        let slots = Slotted::new(&mut self.slot_octets, &mut self.slot_notes, width);
        Quota::new(
            Tandem::new(slots, Packed::new(&mut self.packed_octets)),
            limit,
        )
    }
}

// A pair's queue is written for each of the two kinds of pairs: what a trait's method lends has a type with a lifetime, and
// an associated type can have none.
impl HalfMemory {
    // The two queues over this memory, in tandem.
    pub fn queue(&mut self) -> Half<'_>
        ensures { IsHalfOver self.old result }
    {
        let limit = self.limit.unwrap_or(u32::MAX);
        let bottoms = Tandem::new(self.near.queue(), self.far.queue());
        Quota::new(bottoms, limit)
    }
}

impl PileMemory {
    // The pile over this memory.
    pub fn queue(&mut self) -> Pile<'_>
        ensures { IsPileOver self.old result }
    {
        let limit = self.limit.unwrap_or(u32::MAX);
        let halves = Tandem::new(self.near.queue(), self.far.queue());
        Quota::new(halves, limit)
    }
}
