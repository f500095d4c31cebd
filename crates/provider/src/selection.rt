use codec::invocation::RequestedQuality;
use codec::time::Time;

pub(crate) mod records;

// What a START asks for: frames of a quality, not before start, and not later than stop.
#[derive(Clone, Copy, Debug, PartialEq, Eq)]
pub struct Selection {
    pub quality: RequestedQuality,
    pub start: Option<Time>,
    pub stop: Option<Time>,
}
