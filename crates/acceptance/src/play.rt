ghost use Rattle.std.specs.Prelude.{◌≡◌, map, IfOk};
ghost use Rattle.replay.specs.Events.{call_of, call_owned};

use crate::account::say_account;
use crate::answer::{say_answer, say_opening};
use crate::opening::ScriptOpening;
use crate::reading::{Script, read_calls, read_opening};
use piles::memory::{PileMemory, Sizes};
use provider::answer::OpeningRefusal;
use replay::account::Account;
use replay::answer::Answer;
use replay::call::Call;
use replay::playing::{Replayed, replay};
use replay::watcher::Watcher;
use script::calls::CallLines;
use script::complaint::{Complaint, FaultyLine};
use script::played::Played;
use std::alloc::{AllocError, Global};

// What the provider answered: whether it opened, or why not, each call's answer, and their account.
#[derive(Drop)]
struct Pass {
    opening: Result<(), OpeningRefusal>,
    answers: Vec<Answer>,
    account: Account,
}

// The calls, with their octets lent.
fn lend<'a>(heap: Global, calls: &'a [Call<Vec<u8>>]) -> Result<Vec<Call<&'a [u8]>>, AllocError>
    ensures { IfOk result (λ v. map call_of v.items ≡ map call_owned calls.now) }
{
    // A loop: what the calls that `collect` gathers lend did not reach the proof.
    let mut lent = Vec::with_capacity(heap, calls.len())?;
    for call in calls {
        lent.push(call.lent())?;
    }
    Ok(lent)
}

// The memory of the two piles.
#[derive(Drop)]
struct Piles {
    frames: PileMemory,
    transport: PileMemory,
}

impl Piles {
    fn new(opening: &ScriptOpening, heap: Global) -> Result<Piles, AllocError> {
        Ok(Piles {
            frames: opening.frames.memory(heap)?,
            transport: opening.transport.memory(heap)?,
        })
    }
}

// Replays the calls of a script on a provider between the two piles.
fn play_calls<W: Watcher + Drop>(
    heap: Global,
    opening: &ScriptOpening,
    calls: &[Call<Vec<u8>>],
    piles: Piles,
    mut watcher: W,
) -> Result<Pass, AllocError> {
    let Piles {
        mut frames,
        mut transport,
    } = piles;
    let calls = lend(heap, calls)?;
    let Replayed {
        provider,
        answers,
        account,
    } = replay(
        heap,
        frames.queue(),
        transport.queue(),
        opening.lent(),
        &calls,
        &mut watcher,
    )?;
    Ok(Pass {
        opening: provider.opening(),
        answers,
        account,
    })
}

// The line of each answer; the account stands only behind a script that was played to its end.
fn say_pass(out: &mut Vec<u8>, pass: &Pass, to_the_end: bool) -> Result<(), AllocError> {
    say_opening(out, pass.opening)?;
    for answer in &pass.answers {
        say_answer(out, answer)?;
    }
    if to_the_end {
        say_account(out, &pass.account)?;
    }
    Ok(())
}

// Plays a script on the provider that its first call opens.
pub fn play<W: Watcher + Drop>(
    text: &[u8],
    heap: Global,
    watcher: W,
) -> Result<Played, AllocError> {
    let mut answers = Vec::new(heap);
    let mut lines = CallLines::new(text, heap);
    // A `match`, since what has been answered is given back also where a line is faulty.
    let (number, opening) = match read_opening(&mut lines, heap) {
        Ok(read) => read,
        Err(fault) => {
            return Ok(Played {
                answers,
                fault: Some(fault),
            });
        }
    };
    let Ok(piles) = Piles::new(&opening, heap) else {
        let complaint = Complaint::NoMemory;
        return Ok(Played {
            answers,
            fault: Some(FaultyLine { number, complaint }),
        });
    };
    let Script { calls, fault } = read_calls(lines, heap);
    let pass = play_calls(heap, &opening, calls.as_slice(), piles, watcher)?;
    say_pass(&mut answers, &pass, fault.is_none())?;
    Ok(Played { answers, fault })
}
