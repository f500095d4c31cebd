ghost use Rattle.std.specs.Prelude.{◌≡◌, max, ◌&&◌, ◌++◌};
ghost use Rattle.layers.specs.Layers.{none, tandem_room};
ghost use Rattle.queue.specs.Changes.{Kept};
ghost use Rattle.layers.specs.Joins.{front_nil, back_nil};
ghost use Rattle.layers.specs.Rooms.{tandem_vacant, tandem_bounded};

use queue::interface::Queue;
use queue::meaning::Meaning;
use queue::refusal::{Refusal, admit};

// Two queues in a row: what the near queue holds is older than what the far queue holds.
#[derive(Drop)]
pub struct Tandem<N, F> {
    near: N,
    far: F,
}

impl<N, F> Tandem<N, F> {
    pub fn new(near: N, far: F) -> Self
        ensures { (result.near ≡ near) × (result.far ≡ far) }
    {
        Tandem { near, far }
    }
}

impl<N: Queue, F: Queue> Tandem<N, F> {
    // The greater of the two largest lengths.
    fn widest(&mut self) -> usize
        ensures answer { result ≡ max (N.Meaning.largest self.old.near) (F.Meaning.largest self.old.far) }
        ensures near { Kept N.Meaning self.old.near self.new.near }
        ensures far { Kept F.Meaning self.old.far self.new.far }
    {
        let near = self.near.largest();
        let far = self.far.largest();
        near.max(far)
    }

    // Whether a record of `n` octets goes to the near queue: only while the far queue is empty, since a record that
    // went to the near queue past older ones in the far queue would leave before them.
    fn goes_near(&mut self, n: usize) -> bool
        ensures answer { result ≡ (none (F.Meaning.held self.old.far) && N.Meaning.room self.old.near n) }
        ensures near { Kept N.Meaning self.old.near self.new.near }
        ensures far { Kept F.Meaning self.old.far self.new.far }
    {
        self.far.count() == 0 && self.near.room_for(n)
    }
}

impl<N: Meaning, F: Meaning> Meaning for Tandem<N, F> {
    ghost held = { λ s. N.Meaning.held s.near ++ F.Meaning.held s.far };

    ghost largest = { λ s. max (N.Meaning.largest s.near) (F.Meaning.largest s.far) };

    ghost room = { λ s. tandem_room (N.Meaning.room s.near) (F.Meaning.held s.far) (F.Meaning.room s.far) };

    ghost vacant = { λ q n e p l.
        let a = N.Meaning.held q.near in
        let b = F.Meaning.held q.far in
        tandem_vacant (N.Meaning.room q.near) (F.Meaning.room q.far) b n (N.Meaning.largest q.near) (F.Meaning.largest q.far) (back_nil a b e)
        (N.Meaning.vacant q.near n (front_nil a b e) p) (F.Meaning.vacant q.far n (back_nil a b e) p) l };

    ghost bounded = { λ q n.
        tandem_bounded (N.Meaning.room q.near) (F.Meaning.room q.far) (F.Meaning.held q.far) n (N.Meaning.largest q.near) (F.Meaning.largest q.far)
        (N.Meaning.bounded q.near n) (F.Meaning.bounded q.far n) };
}

impl<N: Queue, F: Queue> Queue for Tandem<N, F> {
    fn count(&mut self) -> u32 {
        let near = self.near.count();
        let far = self.far.count();
        near.saturating_add(far)
    }

    fn largest(&mut self) -> usize {
        self.widest()
    }

    fn room_for(&mut self, n: usize) -> bool {
        self.goes_near(n) || self.far.room_for(n)
    }

    // What goes near is admitted there; only what goes far is admitted here.
    fn add(&mut self, octets: &[u8]) -> Result<(), Refusal> {
        let n = octets.len();
        if self.goes_near(n) {
            return self.near.add(octets);
        }
        let most = self.widest();
        let free = self.far.room_for(n);
        admit(n, most, free)?;
        self.far.add(octets)
    }

    // The two queues differ in type, and a function that hands out one of them as `&mut dyn Queue` is refused by the
    // toolchain: so each call about the oldest record chooses between them itself.
    fn first_length(&mut self) -> Result<usize, Refusal> {
        if self.near.count() == 0 {
            return self.far.first_length();
        }
        self.near.first_length()
    }

    fn read_from(&mut self, place: usize, out: &mut [u8]) -> Result<usize, Refusal> {
        if self.near.count() == 0 {
            return self.far.read_from(place, out);
        }
        self.near.read_from(place, out)
    }

    fn drop(&mut self) -> Result<(), Refusal> {
        if self.near.count() == 0 {
            return self.far.drop();
        }
        self.near.drop()
    }
}
