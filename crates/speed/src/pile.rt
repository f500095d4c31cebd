use crate::load::{Load, PDUS};
use crate::measure::measure;
use layers::quota::Quota;
use layers::tandem::Tandem;
use packed::packed::Packed;
use slot::note::SlotNote;
use slot::slotted::Slotted;
use std::alloc::{AllocError, Global};
use std::str::FromStr;
use std::{fmt, io};

// The kinds of piles: frame buffer and transport are both of the kind.
#[derive(Clone, Copy)]
pub enum Pile {
    Slot,
    Packed,
    Quota,
    Tandem,
}

pub const PILES: [Pile; 4] = [Pile::Slot, Pile::Packed, Pile::Quota, Pile::Tandem];

impl fmt::Display for Pile {
    fn fmt<W: fmt::Write>(&self, f: &mut fmt::Formatter<W>) -> fmt::Result {
        f.write_str(match self {
            Pile::Slot => "slot",
            Pile::Packed => "packed",
            Pile::Quota => "quota",
            Pile::Tandem => "tandem",
        })
    }
}

// That no pile has this name.
#[derive(Clone, Copy)]
pub struct UnknownPile;

impl FromStr for Pile {
    type Err = UnknownPile;

    fn from_str(name: &str) -> Result<Pile, UnknownPile> {
        match name {
            "slot" => Ok(Pile::Slot),
            "packed" => Ok(Pile::Packed),
            "quota" => Ok(Pile::Quota),
            "tandem" => Ok(Pile::Tandem),
            _ => Err(UnknownPile),
        }
    }
}

impl Pile {
    // Plays a load on a provider over piles of this kind.
    pub fn play(self, rt: &HostRuntime, load: &Load) -> io::Result<()> {
        // Each makes queues of types of its own.
        match self {
            Pile::Slot => slot(rt, load),
            Pile::Packed => packed(rt, load),
            Pile::Quota => quota(rt, load),
            Pile::Tandem => tandem(rt, load),
        }
    }
}

// The memory of a slot queue.
#[derive(Drop)]
struct SlotMemory {
    octets: Vec<u8>,
    notes: Vec<SlotNote>,
    width: usize,
}

impl SlotMemory {
    fn new(heap: Global, width: usize, slots: usize) -> Result<SlotMemory, AllocError> {
        Ok(SlotMemory {
            octets: vec![in heap; 0; width.saturating_mul(slots)]?,
            notes: vec![in heap; SlotNote::blank(); slots]?,
            width,
        })
    }

    fn queue(&mut self) -> Slotted<'_> {
        let width = self.width;
        Slotted::new(&mut self.octets, &mut self.notes, width)
    }
}

// Octets for a packed queue of this many records, but at least one of the longest, and a few more, so that records go
// round the end.
fn packed_memory(
    heap: Global,
    length: usize,
    records: usize,
    longest: usize,
) -> Result<Vec<u8>, AllocError> {
    let octets = length.saturating_add(2).saturating_mul(records);
    vec![in heap; 0; octets.max(longest).saturating_add(5)]
}

// Octets for a packed frame buffer, and for a packed transport of this many PDUs.
fn frame_octets(heap: Global, load: &Load) -> Result<Vec<u8>, AllocError> {
    packed_memory(
        heap,
        load.record_length(),
        load.records(),
        load.longest_record(),
    )
}

fn transport_octets(heap: Global, load: &Load, pdus: usize) -> Result<Vec<u8>, AllocError> {
    packed_memory(heap, load.longest_pdu(), pdus, 0)
}

fn slot(rt: &HostRuntime, load: &Load) -> io::Result<()> {
    let mut frames = SlotMemory::new(rt.alloc(), load.longest_record(), load.records())?;
    let mut transport = SlotMemory::new(rt.alloc(), load.longest_pdu(), PDUS)?;
    measure(rt, Pile::Slot, frames.queue(), transport.queue(), load)
}

fn packed(rt: &HostRuntime, load: &Load) -> io::Result<()> {
    let mut frames = frame_octets(rt.alloc(), load)?;
    let mut transport = transport_octets(rt.alloc(), load, PDUS)?;
    measure(
        rt,
        Pile::Packed,
        Packed::new(&mut frames),
        Packed::new(&mut transport),
        load,
    )
}

// Packed queues of which no more records are in use than are held here.
fn quota(rt: &HostRuntime, load: &Load) -> io::Result<()> {
    let mut frames = frame_octets(rt.alloc(), load)?;
    let frames = Quota::new(Packed::new(&mut frames), load.held.saturating_add(2));
    let mut transport = transport_octets(rt.alloc(), load, PDUS)?;
    let transport = Quota::new(Packed::new(&mut transport), PDUS as u32);
    measure(rt, Pile::Quota, frames, transport, load)
}

// The first half goes to slots, the others to a packed queue behind them.
fn tandem(rt: &HostRuntime, load: &Load) -> io::Result<()> {
    let heap = rt.alloc();
    let mut near = SlotMemory::new(heap, load.longest_record(), load.held as usize / 2)?;
    let mut far = frame_octets(heap, load)?;
    let frames = Tandem::new(near.queue(), Packed::new(&mut far));
    let mut near = SlotMemory::new(heap, load.longest_pdu(), PDUS / 2)?;
    let mut far = transport_octets(heap, load, PDUS / 2)?;
    let transport = Tandem::new(near.queue(), Packed::new(&mut far));
    measure(rt, Pile::Tandem, frames, transport, load)
}
