ghost use Rattle.std.specs.Prelude.{◌≡◌};
ghost use Rattle.codec.specs.Times.{stamp};

use super::Time;

// The three numbers of a time.
impl Time {
    pub fn day(&self) -> u16
        ensures { result ≡ (stamp self.now).day }
    {
        self.day
    }

    pub fn millisecond(&self) -> u32
        ensures { result ≡ (stamp self.now).millisecond }
    {
        self.millisecond
    }

    pub fn microsecond(&self) -> u16
        ensures { result ≡ (stamp self.now).microsecond }
    {
        self.microsecond
    }
}
