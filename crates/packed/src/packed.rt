ghost use Rattle.std.specs.Prelude.{◌≡◌, length};
ghost use Rattle.ring.specs.Rings.{elements};
ghost use Rattle.packed.specs.Packing.{packed, unpacked};

use ring::ring::Ring;

pub mod as_queue;
pub mod calls;

// Records in a ring of octets, each behind its length in two octets, and how many they are.
#[derive(Drop)]
pub struct Packed<'a> {
    ring: Ring<'a, u8>,
    count: usize,
    // The ring holds the packed records and nothing else.
    ghost whole: { packed (unpacked count (elements ring)) ≡ elements ring },
    ghost counted: { length (unpacked count (elements ring)) ≡ count },
}
