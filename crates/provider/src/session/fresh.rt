ghost use Rattle.std.specs.Prelude.{◌≡◌};
ghost use Rattle.histories.specs.Provider.{fresh};
ghost use Rattle.provider.specs.Answers.{opening_answer};
ghost use Rattle.provider.specs.Opening.{first_phase, kept_settings};
ghost use Rattle.provider.specs.Sessions.{settings_of, session_of};

use super::Session;
use crate::answer::OpeningRefusal;
use crate::phase::Phase;
use crate::selection::Selection;
use crate::settings::Settings;
use crate::transfer_buffer::TransferBuffer;
use codec::invocation::RequestedQuality;
use codec::record::ProductionStatus;

impl Session {
    // The session that an opening begins: unbound if it was accepted, else closed.
    pub(crate) fn fresh(accepted: Result<Settings, OpeningRefusal>) -> Session
        ensures session { session_of result ≡ fresh (first_phase (opening_answer accepted)) }
        ensures settings { settings_of result.settings ≡ kept_settings accepted }
        ensures opening { opening_answer result.opening ≡ opening_answer accepted }
    {
        let (opening, phase, settings) = match accepted {
            Ok(settings) => (Ok(()), Phase::Unbound, settings),
            Err(refusal) => (Err(refusal), Phase::Closed, Settings::least()),
        };
        Session {
            settings,
            opening,
            phase,
            selection: Selection {
                quality: RequestedQuality::All,
                start: None,
                stop: None,
            },
            end_mark: false,
            age: 0,
            production: ProductionStatus::Running,
            buffer: TransferBuffer::new(),
        }
    }
}
