// Who wants to know how far a replay has come, as a program that shows progress.
// A trait and no closure: `replay` would then require that the closure can be called, and a public call requires nothing.
pub trait Watcher {
    fn played(&mut self, calls: usize);
}

// A watcher that looks away.
#[derive(Clone, Copy)]
pub struct Unwatched {}

impl Watcher for Unwatched {
    fn played(&mut self, _: usize) {}
}
