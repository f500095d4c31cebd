//! Delivery goes on.
ghost use Rattle.histories.specs.Progress.{ServedRunsFinish, CallsCanBeServed};

/// Enough moves and ticks, each finding the transport empty, finish a run.
pub fn served_runs_finish()
    ensures { ServedRunsFinish }
{}

/// From every state any calls can be made so.
pub fn calls_can_be_served()
    ensures { CallsCanBeServed }
{}
