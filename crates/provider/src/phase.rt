// The phase of the association with the user.
#[derive(Clone, Copy, Debug, PartialEq, Eq)]
pub enum Phase {
    Unbound,
    Ready,
    Active,
    Closed,
}
