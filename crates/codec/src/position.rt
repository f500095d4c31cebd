ghost use Rattle.std.specs.Prelude.{◌≤◌, length};

mod fields;

// A place in an input, at its end at most.
#[derive(Clone, Copy)]
pub(crate) struct Position<'a> {
    pub(crate) input: &'a [u8],
    pub(crate) place: usize,
    ghost within: { place ≤ length input.now },
}
