ghost use Rattle.std.specs.Prelude.{◌≡◌, length, vec_len, IfOk, MatchResult};
ghost use Rattle.histories.specs.Provider.{opened};
ghost use Rattle.provider.specs.Opening.{opening_asked};
ghost use Rattle.provider.specs.States.{queue_of, state_of, Does};
ghost use Rattle.replay.specs.Accounts.{account_of};
ghost use Rattle.replay.specs.Events.{event_of};
ghost use Rattle.replay.specs.Replays.{events_of, Replays};
ghost use Rattle.replay.specs.declared.answer.Answer.TheVariants.{Collected};
ghost use Rattle.replay.specs.declared.call.Call.TheVariants.{Collect};

use crate::account::Account;
use crate::answer::Answer;
use crate::call::Call;
use crate::watcher::Watcher;
use provider::answer::CollectionRefusal;
use provider::provider::Provider;
use provider::settings::Opening;
use queue::interface::Queue;
use std::alloc::{AllocError, Global};

// A collection into these octets, of which those that were copied stay.
fn collect_into<F: Queue, T: Queue>(
    provider: &mut Provider<F, T>,
    mut octets: Vec<u8>,
) -> Result<Vec<u8>, CollectionRefusal>
    ensures { Does F.Meaning T.Meaning provider.old (event_of (Collect (vec_len octets)) (Collected result)) provider.new }
{
    let count = provider.collect(octets.as_mut_slice())?;
    octets.truncate(count);
    Ok(octets)
}

// A collection into memory of its own, of as many octets as are to be copied: what comes of it is the same as with a
// buffer of `capacity` octets.
fn collect_owned<F: Queue, T: Queue>(
    heap: Global,
    provider: &mut Provider<F, T>,
    capacity: usize,
) -> Result<Result<Vec<u8>, CollectionRefusal>, AllocError>
    ensures { MatchResult result (λ a. Does F.Meaning T.Meaning provider.old (event_of (Collect capacity) (Collected a)) provider.new) (λ _. state_of F.Meaning T.Meaning provider.new ≡ state_of F.Meaning T.Meaning provider.old) }
{
    let length = provider.waiting_length().unwrap_or(0);
    let octets = Vec::from_elem(heap, 0, length.min(capacity))?;
    Ok(collect_into(provider, octets))
}

// Makes one call. Where there is no memory for its answer, nothing is changed.
pub fn play_call<F: Queue, T: Queue>(
    heap: Global,
    provider: &mut Provider<F, T>,
    call: &Call<&[u8]>,
) -> Result<Answer, AllocError>
    ensures { MatchResult result (λ a. Does F.Meaning T.Meaning provider.old (event_of call.now a) provider.new) (λ _. state_of F.Meaning T.Meaning provider.new ≡ state_of F.Meaning T.Meaning provider.old) }
{
    match *call {
        Call::Acquire {
            quality,
            time,
            data,
        } => Ok(Answer::Received(provider.acquire(quality, time, data))),
        Call::Note { kind, time, status } => Ok(Answer::Received(provider.note(
            kind, time, status,
        ))),
        Call::Move => Ok(Answer::Moved(provider.move_record())),
        Call::Tick => Ok(Answer::Ticked(provider.tick())),
        Call::Collect { capacity } => Ok(Answer::Collected(collect_owned(
            heap, provider, capacity,
        )?)),
        Call::Invoke { octets } => Ok(Answer::Invoked(provider.invoke(octets))),
    }
}

// What a replay leaves: the provider as its calls left it, their answers in order, and their account.
#[derive(Drop)]
pub struct Replayed<F, T> {
    pub provider: Provider<F, T>,
    pub answers: Vec<Answer>,
    pub account: Account,
}

// Opens a provider over two queues and makes the calls on it, one after the other; on a provider whose opening is
// refused too. Want of memory for the answers ends it.
pub fn replay<F: Queue + Drop, T: Queue + Drop, W: Watcher>(
    heap: Global,
    frames: F,
    transport: T,
    opening: Opening,
    calls: &[Call<&[u8]>],
    watcher: &mut W,
) -> Result<Replayed<F, T>, AllocError>
    ensures answers { IfOk result (λ p. length p.answers.items ≡ length calls.now) }
    ensures replays { IfOk result (λ p. Replays (opened (opening_asked opening.entry) (queue_of F.Meaning frames) (queue_of T.Meaning transport)) (events_of calls.now p.answers.items) (account_of p.account) (state_of F.Meaning T.Meaning p.provider)) }
{
    let mut provider = Provider::open(frames, transport, opening);
    let mut answers = Vec::new(heap);
    let mut account = Account::new();
    for call in calls {
        let answer = play_call(heap, &mut provider, call)?;
        account.enter(&answer);
        answers.push(answer)?;
        watcher.played(answers.len());
    }
    Ok(Replayed {
        provider,
        answers,
        account,
    })
}
