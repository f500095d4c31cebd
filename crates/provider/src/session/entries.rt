ghost use Rattle.std.specs.Prelude.{◌≡◌, ◌<◌, ◌++◌, Some};
ghost use Rattle.codec.specs.RecordReading.{said, content_if, one_record};
ghost use Rattle.codec.specs.Records.{end_of_data};
ghost use Rattle.histories.specs.Provider.{must_send};
ghost use Rattle.histories.specs.Sessions.{aged, holding, age_at_entry, entered, marked};
ghost use Rattle.provider.specs.Buffers.{record_list};
ghost use Rattle.provider.specs.Invoking.{Unopened};
ghost use Rattle.provider.specs.Sessions.{settings_of, session_of, HasRoom};

use super::Session;
use codec::record::{NOTIFICATION_LENGTH, Notification, RecordContent, write_notification};

impl Session {
    // Whether a move has to send: the transfer buffer is full, or has what was taken before end of data.
    pub(crate) fn must_send(&self) -> bool
        ensures { result ≡ must_send (settings_of self.now.settings) (session_of self.now) }
    {
        self.buffer.count == self.settings.buffer_size || (self.end_mark && self.buffer.count > 0)
    }

    // A record enters the transfer buffer; only the entry of the first one sets the age to 0.
    pub(crate) fn enter(&mut self, octets: &[u8], content: &RecordContent)
        requires room { HasRoom self.old }
        requires one { Some (said content.now) ≡ content_if (one_record octets.now) }
        ensures session { session_of self.new ≡ holding ((session_of self.old).buffer ++ record_list (one_record octets.now)) (aged (age_at_entry (session_of self.old).buffer self.old.age) (session_of self.old)) }
        ensures kept { Unopened self.old self.new }
    {
        if self.buffer.count == 0 {
            self.age = 0;
        }
        self.buffer.push(octets, content);
    }

    // End of data enters the transfer buffer, and the end mark is set.
    pub(crate) fn enter_end_of_data(&mut self)
        requires room { HasRoom self.old }
        ensures session { session_of self.new ≡ marked (entered end_of_data (session_of self.old)) }
        ensures kept { Unopened self.old self.new }
    {
        let mut octets = [0; NOTIFICATION_LENGTH];
        let _ = write_notification(&mut octets, Notification::EndOfData);
        self.enter(
            &octets,
            &RecordContent::Notification(Notification::EndOfData),
        );
        self.end_mark = true;
    }
}
