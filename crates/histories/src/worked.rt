//! Worked examples, evaluated by the definitions.
ghost use Rattle.histories.specs.Examples.{EndsAreSelected, ErredIsPassedOver, LateFrameIsHeld, RestartDiscards, WorkedHistory, WorkedLedger};

/// Frames timed at start and at stop are selected.
pub fn frames_at_both_ends_are_selected()
    ensures { EndsAreSelected }
{}

/// With good frames asked for, an erred one is passed over.
pub fn erred_frame_is_passed_over()
    ensures { ErredIsPassedOver }
{}

/// A frame later than stop ends the run and stays in the frame buffer.
pub fn late_frame_is_held()
    ensures { LateFrameIsHeld }
{}

/// START when active is a protocol error, and discards.
pub fn restart_discards()
    ensures { RestartDiscards }
{}

/// Histories exist: one with three runs, and what its ledger has.
pub fn worked_history()
    ensures exists { WorkedHistory }
    ensures says { WorkedLedger }
{}
