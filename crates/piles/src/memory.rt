ghost use Rattle.std.specs.Prelude.{◌≡◌, IfOk};

use crate::pair::Pair;
use crate::shape::BottomShape;
use slot::note::SlotNote;
use std::alloc::{AllocError, Global};

// The memory that a slot queue and a packed queue are made over, of which one is hollow: so all piles are of one type.
#[derive(Drop)]
pub struct BottomMemory {
    pub limit: Option<u32>,
    pub slot_octets: Vec<u8>,
    pub slot_notes: Vec<SlotNote>,
    pub slot_width: usize,
    pub packed_octets: Vec<u8>,
}

pub type HalfMemory = Pair<BottomMemory>;

pub type PileMemory = Pair<HalfMemory>;

// What the sizes of queues ask for in memory.
pub trait Sizes {
    type Memory;

    // The sizes of a memory.
    ghost shape: { Self.Memory → Self };

    // Memory of these sizes.
    fn memory(&self, heap: Global) -> Result<Self::Memory, AllocError>
        ensures { IfOk result (λ m. shape m ≡ self.now) };
}

impl Sizes for BottomShape {
    ghost use Rattle.piles.specs.Shapes.{bottom_shape};

    type Memory = BottomMemory;

    ghost shape = { bottom_shape };

    fn memory(&self, heap: Global) -> Result<BottomMemory, AllocError> {
        Ok(BottomMemory {
            limit: self.limit,
            slot_octets: vec![in heap; 0; self.slot_octets]?,
            slot_notes: vec![in heap; SlotNote::blank(); self.slot_notes]?,
            slot_width: self.slot_width,
            packed_octets: vec![in heap; 0; self.packed_octets]?,
        })
    }
}

impl<S: Sizes> Sizes for Pair<S>
where
    S::Memory: Drop,
{
    type Memory = Pair<S::Memory>;

    ghost shape = { λ m. record { limit = m.limit; near = S.shape m.near; far = S.shape m.far } };

    fn memory(&self, heap: Global) -> Result<Pair<S::Memory>, AllocError> {
        Ok(Pair {
            limit: self.limit,
            near: self.near.memory(heap)?,
            far: self.far.memory(heap)?,
        })
    }
}
