ghost use Rattle.std.specs.Prelude.{◌≡◌};
ghost use Rattle.histories.specs.Sessions.{is_active, is_closed};
ghost use Rattle.provider.specs.Sessions.{session_of};

use super::Session;
use crate::phase::Phase;

impl Session {
    pub(crate) fn is_active(&self) -> bool
        ensures { result ≡ is_active (session_of self.now).phase }
    {
        self.phase == Phase::Active
    }

    pub(crate) fn is_closed(&self) -> bool
        ensures { result ≡ is_closed (session_of self.now).phase }
    {
        self.phase == Phase::Closed
    }
}
