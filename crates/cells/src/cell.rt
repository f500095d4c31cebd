ghost use Rattle.std.specs.Prelude.{◌≡◌, ◌≤◌, length};
ghost use Rattle.cells.specs.Sizes.{cell_size};

pub mod calls;

// How many octets a cell has.
pub const CELL_SIZE: usize = 32;

// A cell of a memory board, of which the first `used` octets are a record. It is an array with a length beside, since a
// board has fixed memory for each cell, however short its record is.
#[derive(Clone, Copy)]
pub struct Cell {
    octets: [u8; CELL_SIZE],
    used: usize,
    ghost whole: { length octets ≡ cell_size },
    ghost within: { used ≤ cell_size },
}
