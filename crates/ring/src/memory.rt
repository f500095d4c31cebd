ghost use Rattle.std.specs.Prelude.{◌^◌, ◌<◌, length};

pub mod calls;

// Lent memory, of which parts are written and read as blocks.
#[derive(Drop)]
pub struct Memory<'a, T> {
    slots: &'a mut [T],
    ghost bounded: { length slots.now < 2 ^ 64 },
}
