ghost use Rattle.std.specs.Prelude.{◌≡◌, if◌then◌else◌, Ok, Err};
ghost use Rattle.histories.specs.Provider.{in_range, least_settings};
ghost use Rattle.provider.specs.Opening.{opening_asked, settings_or};
ghost use Rattle.provider.specs.Sessions.{settings_of};
ghost use Rattle.provider.specs.declared.answer.OpeningRefusal.TheVariants.{SettingsOutOfRange};

use super::{HIGHEST_VERSION, LONGEST_LATENCY, Opening, Settings};
use crate::answer::OpeningRefusal;
use crate::transfer_buffer::MOST_RECORDS;
use codec::invocation::Identifier;

impl Settings {
    // The settings that an opening asks for, if each is in its range.
    pub(crate) fn checked(opening: &Opening) -> Result<Settings, OpeningRefusal>
        ensures { settings_or result ≡ (if in_range (opening_asked opening.now) then Ok (opening_asked opening.now) else Err SettingsOutOfRange) }
    {
        let buffer_size = opening.buffer_size as usize;
        let in_range = (1..=MOST_RECORDS).contains(&buffer_size)
            && (1..=LONGEST_LATENCY).contains(&opening.latency_limit)
            && (1..=HIGHEST_VERSION).contains(&opening.version);
        if !in_range {
            return Err(OpeningRefusal::SettingsOutOfRange);
        }
        let identifier = Identifier::new(opening.identifier).ok_or(
            OpeningRefusal::SettingsOutOfRange,
        )?;
        Ok(Settings {
            buffer_size,
            latency_limit: opening.latency_limit,
            version: opening.version as u8,
            identifier,
        })
    }

    // What stands in the place of settings that were refused.
    pub(crate) fn least() -> Settings
        ensures { settings_of result ≡ least_settings }
    {
        Settings {
            buffer_size: 1,
            latency_limit: 1,
            version: 1,
            identifier: Identifier::new(&[0, 0, 0]).unwrap(),
        }
    }
}
