ghost use Rattle.std.specs.Prelude.{◌≡◌};

// Where a record stands among the octets, and how long it is.
#[derive(Clone, Copy, Default)]
pub struct SlotNote {
    pub place: usize,
    pub length: usize,
}

impl SlotNote {
    // A note of nothing, to make a slice of notes from.
    pub fn blank() -> SlotNote
        ensures { (result.place ≡ 0) × (result.length ≡ 0) }
    {
        SlotNote::default()
    }
}
