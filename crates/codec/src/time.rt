ghost use Rattle.std.specs.Prelude.{◌≤◌};
ghost use Rattle.codec.specs.Limits.{millisecond_limit, microsecond_limit};

mod methods;
mod numbers;
pub(crate) mod read;

// The last millisecond of a day, and the last microsecond of a millisecond.
pub const MILLISECOND_LIMIT: u32 = 86_399_999;

pub const MICROSECOND_LIMIT: u32 = 999;

// How many octets a time has.
pub const TIME_LENGTH: usize = 8;

// A time in the CCSDS day segmented code: day, millisecond of the day, microsecond of the millisecond.
// Times are ordered by these numbers in turn.
#[derive(Clone, Copy, Debug, PartialEq, Eq, PartialOrd, Ord)]
pub struct Time {
    day: u16,
    millisecond: u32,
    microsecond: u16,
    ghost limits: { (millisecond ≤ millisecond_limit) × (microsecond ≤ microsecond_limit) },
}

// The three numbers of a time, not yet known to be within their limits.
#[derive(Clone, Copy, Debug, PartialEq, Eq)]
pub struct TimeNumbers {
    pub day: u16,
    pub millisecond: u32,
    pub microsecond: u32,
}

// The field of a time that is beyond its limit.
#[derive(Clone, Copy, Debug, PartialEq, Eq)]
pub enum TimeField {
    Millisecond,
    Microsecond,
}
