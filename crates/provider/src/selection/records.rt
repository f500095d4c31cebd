ghost use Rattle.std.specs.Prelude.{◌≡◌, not, ◌&&◌};
ghost use Rattle.codec.specs.RecordReading.{said};
ghost use Rattle.codec.specs.Times.{stamp, stamp_if};
ghost use Rattle.histories.specs.Sessions.{requests, before_start, empty_span};
ghost use Rattle.provider.specs.Selections.{held_selection, late_content, selected_content};

use super::Selection;
use codec::invocation::RequestedQuality;
use codec::record::{Quality, RecordContent};
use codec::time::Time;

fn requests(requested: RequestedQuality, quality: Quality) -> bool
    ensures { result ≡ requests requested quality }
{
    matches!(
        (requested, quality),
        (RequestedQuality::All, _)
            | (RequestedQuality::GoodOnly, Quality::Good)
            | (RequestedQuality::ErredOnly, Quality::Erred)
    )
}

impl Selection {
    // Whether a frame of this time is before start.
    fn is_early(&self, time: &Time) -> bool
        ensures { result ≡ before_start (stamp time.now) (stamp_if self.now.start) }
    {
        self.start.is_some_and(|start| *time < start)
    }

    // Whether a record is a frame later than stop.
    pub(crate) fn is_late(&self, content: &RecordContent) -> bool
        ensures { result ≡ late_content (held_selection self.now) (said content.now) }
    {
        match content {
            RecordContent::Frame { time, .. } => self.stop.is_some_and(|stop| stop < *time),
            RecordContent::Notification(_) => false,
        }
    }

    // Whether a record is a notification, or a frame of a quality and a time that is asked for.
    pub(crate) fn selects(&self, content: &RecordContent) -> bool
        ensures { result ≡ selected_content (held_selection self.now) (said content.now) }
    {
        match content {
            RecordContent::Frame { quality, time, .. } => requests(self.quality, *quality)
                && !self.is_early(time),
            RecordContent::Notification(_) => true,
        }
    }

    // Whether stop is not later than start, both being given.
    pub(crate) fn is_empty_span(&self) -> bool
        ensures { result ≡ empty_span (stamp_if self.now.start) (stamp_if self.now.stop) }
    {
        self.start
            .zip(self.stop)
            .is_some_and(|(start, stop)| start >= stop)
    }
}
