//! What holds in every history after every call.
ghost use Rattle.histories.specs.Accounts.{AccountsAgree};
ghost use Rattle.histories.specs.Ledger.{step};
ghost use Rattle.histories.specs.Statements.{Always, EachCall, Delivered, Complete, Punctual, OneFate, UntakenHeld, DiscardsRightly, StepsContinue};

/// On the way to the collector nothing is lost, doubled, reordered or made up; the transfer buffer's records are those pending.
pub fn records_are_delivered()
    ensures { Always Delivered }
{}

/// A finished run has handed over exactly its due list.
pub fn finished_runs_are_complete()
    ensures { Always (λ l s. Complete l) }
{}

/// After a tick that finds the provider active and the transport empty, no record has waited for the latency limit.
pub fn ticks_are_punctual()
    ensures { EachCall (λ l s e s'. Punctual s e (step l e)) }
{}

/// Every accepted record has exactly one fate.
pub fn records_have_one_fate()
    ensures { Always (λ l s. OneFate l) }
{}

/// The frame buffer holds the untaken records, in order.
pub fn untaken_records_are_held()
    ensures { Always UntakenHeld }
{}

/// Only three answers discard; they discard all that is pending, and tell how many accepted records that were.
pub fn discards_are_told()
    ensures { EachCall (λ l s e s'. DiscardsRightly l s e) }
{}

/// A call that does what is defined goes on with whatever history led to it, and all of the above holds of it.
pub fn calls_continue_histories()
    ensures { StepsContinue }
{}

/// The account of a history's answers agrees with its ledger, and counts the PDUs that wait.
pub fn accounts_agree()
    ensures { AccountsAgree }
{}
