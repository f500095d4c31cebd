ghost use Rattle.std.specs.Prelude.{◌≡◌, ◌++◌, OnOk, Some};
ghost use Rattle.acceptance.specs.Lines.{accepted_text, others_text, pdus_line, account_lines};
ghost use Rattle.replay.specs.Accounts.{account_of};

use replay::account::Account;
use script::output::say;
use std::alloc::AllocError;
use std::fmt;

// How many records were accepted, and those on their way out.
#[derive(Clone, Copy)]
struct AcceptedText(Account);

impl fmt::Display for AcceptedText {
    ghost output = { λ t. Some (accepted_text (account_of t.0)) };

    fn fmt<W: fmt::Write>(&self, f: &mut fmt::Formatter<W>) -> fmt::Result {
        let accepted = self.0.accepted;
        let handed_over = self.0.handed_over;
        let pending = self.0.pending;
        write!(
            f,
            "accepted {accepted}, handed over {handed_over}, pending {pending}"
        )
    }
}

// The other accepted records.
#[derive(Clone, Copy)]
struct OthersText(Account);

impl fmt::Display for OthersText {
    ghost output = { λ t. Some (others_text (account_of t.0)) };

    fn fmt<W: fmt::Write>(&self, f: &mut fmt::Formatter<W>) -> fmt::Result {
        let untaken = self.0.untaken;
        let passed_over = self.0.passed_over;
        let discarded = self.0.discarded;
        writeln!(
            f,
            ", untaken {untaken}, passed over {passed_over}, discarded {discarded}"
        )
    }
}

// What became of the PDUs.
#[derive(Clone, Copy)]
struct PdusLine(Account);

impl fmt::Display for PdusLine {
    ghost output = { λ l. Some (pdus_line (account_of l.0)) };

    fn fmt<W: fmt::Write>(&self, f: &mut fmt::Formatter<W>) -> fmt::Result {
        let sent = self.0.pdus_sent;
        let collected = self.0.pdus_collected;
        let waiting = self.0.pdus_waiting();
        writeln!(
            f,
            "PDUs sent {sent}, collected {collected}, waiting {waiting}"
        )
    }
}

// The two closing lines.
pub fn say_account(out: &mut Vec<u8>, account: &Account) -> Result<(), AllocError>
    ensures { OnOk result (out.new.items ≡ out.old.items ++ account_lines (account_of account.now)) }
{
    let accepted = AcceptedText(*account);
    let others = OthersText(*account);
    let pdus = PdusLine(*account);
    say(out, format_args!("{accepted}{others}{pdus}"))
}
