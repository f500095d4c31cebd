ghost use Rattle.std.specs.Prelude.{◌≡◌, ◌<◌, max};
ghost use Rattle.layers.specs.Layers.{quota_room};

use queue::interface::Queue;
use queue::meaning::Meaning;
use queue::refusal::{Refusal, admit};

// A queue of which at most `limit` records are in use.
#[derive(Drop)]
pub struct Quota<Q> {
    below: Q,
    limit: u32,
    ghost some: { 0 < limit },
}

impl<Q> Quota<Q> {
    // A limit of 0 is taken as 1, so that an empty queue has room.
    pub fn new(below: Q, limit: u32) -> Self
        ensures { (result.below ≡ below) × (result.limit ≡ max 1 limit) }
    {
        Quota {
            below,
            limit: limit.max(1),
        }
    }
}

impl<Q: Meaning> Meaning for Quota<Q> {
    ghost use Rattle.layers.specs.Rooms.{quota_vacant, quota_bounded};

    ghost held = { λ s. Q.Meaning.held s.below };

    ghost largest = { λ s. Q.Meaning.largest s.below };

    ghost room = { λ s. quota_room s.limit (Q.Meaning.held s.below) (Q.Meaning.room s.below) };

    ghost vacant = { λ q n e p l.
        quota_vacant q.limit (Q.Meaning.held q.below) (Q.Meaning.room q.below) n q.some e (Q.Meaning.vacant q.below n e p l) };

    ghost bounded = { λ q n e.
        Q.Meaning.bounded q.below n (quota_bounded q.limit (Q.Meaning.held q.below) (Q.Meaning.room q.below) n e) };
}

impl<Q: Queue> Queue for Quota<Q> {
    fn count(&mut self) -> u32 {
        self.below.count()
    }

    fn largest(&mut self) -> usize {
        self.below.largest()
    }

    fn room_for(&mut self, n: usize) -> bool {
        self.below.count() < self.limit && self.below.room_for(n)
    }

    // The length and the count decide here; whether there is room below is asked below.
    fn add(&mut self, octets: &[u8]) -> Result<(), Refusal> {
        let most = self.below.largest();
        let free = self.below.count() < self.limit;
        admit(octets.len(), most, free)?;
        self.below.add(octets)
    }

    fn first_length(&mut self) -> Result<usize, Refusal> {
        self.below.first_length()
    }

    fn read_from(&mut self, place: usize, out: &mut [u8]) -> Result<usize, Refusal> {
        self.below.read_from(place, out)
    }

    fn drop(&mut self) -> Result<(), Refusal> {
        self.below.drop()
    }
}
