ghost use Rattle.std.specs.Prelude.{◌≡◌, ◌≤◌, IfOk};
ghost use Rattle.histories.specs.Provider.{most_records, opening_number, opened};
ghost use Rattle.queue.specs.Changes.{Kept};
ghost use Rattle.provider.specs.Answers.{opening_answer};
ghost use Rattle.provider.specs.Opening.{opening_asked, queues_number, Begins};
ghost use Rattle.provider.specs.Sessions.{settings_of};
ghost use Rattle.provider.specs.States.{queue_of, state_of};

use super::Provider;
use crate::answer::OpeningRefusal;
use crate::session::Session;
use crate::settings::{Opening, Settings};
use codec::record::LONGEST_RECORD;
use queue::interface::Queue;

// That both queues are empty, and wide enough for so many records.
fn check_queues<F: Queue, T: Queue>(
    frames: &mut F,
    transport: &mut T,
    buffer_size: usize,
) -> Result<(), OpeningRefusal>
    requires { buffer_size ≤ most_records }
    ensures answer { opening_answer result ≡ queues_number buffer_size (queue_of F.Meaning frames.old) (queue_of T.Meaning transport.old) }
    ensures frames { Kept F.Meaning frames.old frames.new }
    ensures transport { Kept T.Meaning transport.old transport.new }
{
    let frames_held = frames.count();
    let transport_held = transport.count();
    if frames_held != 0 || transport_held != 0 {
        return Err(OpeningRefusal::QueueNotEmpty);
    }
    let frames_largest = frames.largest();
    let transport_largest = transport.largest();
    if frames_largest < LONGEST_RECORD || transport_largest < buffer_size * LONGEST_RECORD {
        return Err(OpeningRefusal::QueueTooNarrow);
    }
    Ok(())
}

// The settings that an opening asks for, if it is accepted.
fn accept<F: Queue, T: Queue>(
    frames: &mut F,
    transport: &mut T,
    opening: &Opening,
) -> Result<Settings, OpeningRefusal>
    ensures answer { opening_answer result ≡ opening_number (opening_asked opening.now) (queue_of F.Meaning frames.old) (queue_of T.Meaning transport.old) }
    ensures settings { IfOk result (λ s. settings_of s ≡ opening_asked opening.now) }
    ensures frames { Kept F.Meaning frames.old frames.new }
    ensures transport { Kept T.Meaning transport.old transport.new }
{
    let settings = Settings::checked(opening)?;
    check_queues(frames, transport, settings.buffer_size)?;
    Ok(settings)
}

impl<F: Queue, T: Queue> Provider<F, T> {
    // Opens a provider between a frame buffer and a transport, both empty. It always makes a provider: one that is
    // refused is closed, and its opening says why.
    pub fn open(mut frames: F, mut transport: T, opening: Opening) -> Provider<F, T>
        ensures opened { state_of F.Meaning T.Meaning result ≡ opened (opening_asked opening.entry) (queue_of F.Meaning frames) (queue_of T.Meaning transport) }
        ensures begins { Begins (state_of F.Meaning T.Meaning result) }
    {
        let accepted = accept(&mut frames, &mut transport, &opening);
        Provider {
            session: Session::fresh(accepted),
            frames,
            transport,
        }
    }

    // Whether the opening was accepted, or why not.
    pub fn opening(&self) -> Result<(), OpeningRefusal>
        ensures { opening_answer result ≡ (state_of F.Meaning T.Meaning self.now).opening }
    {
        self.session.opening
    }

    // The number of the opening: 0 if it was accepted, else that of its refusal.
    pub fn opening_number(&self) -> u8
        ensures { result ≡ (state_of F.Meaning T.Meaning self.now).opening }
    {
        match self.session.opening {
            Ok(()) => 0,
            Err(refusal) => refusal.number(),
        }
    }
}
