use crate::session::Session;

pub(crate) mod association;
pub(crate) mod delivery;
pub(crate) mod moving;
pub(crate) mod opening;
pub(crate) mod reception;

// The provider end of a service instance, between a frame buffer and a transport. It has no `Model`: the value would be
// its state, which holds for each queue a function, its room, and a function cannot be in the value of a model.
#[derive(Drop)]
pub struct Provider<F, T> {
    pub(crate) session: Session,
    pub(crate) frames: F,
    pub(crate) transport: T,
}
