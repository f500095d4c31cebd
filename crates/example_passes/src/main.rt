// Plays acceptance scripts and compares what is answered with what is expected. The arguments are names: NAME.script is
// played, and NAME.answers has its answers and, behind them, what is said of a faulty line.
#![tactic(auto)]

use acceptance::play::play;
use anyhow::anyhow;
use replay::watcher::Unwatched;
use script::output::say;
use script::played::Played;
use std::{env, fs};

// What a script is answered, and what is said of its faulty line, if any.
fn answers_of(rt: &HostRuntime, text: &[u8]) -> anyhow::Result<Vec<u8>> {
    let Played { mut answers, fault } = play(text, rt.alloc(), Unwatched {})?;
    if let Some(fault) = fault {
        say(&mut answers, format_args!("{fault}\n"))?;
    }
    Ok(answers)
}

fn play_example(rt: &HostRuntime, name: &str) -> anyhow::Result<()> {
    let heap = rt.alloc();
    let text = fs::read(rt, format!(in heap; "{name}.script")?)?;
    let expected = fs::read(rt, format!(in heap; "{name}.answers")?)?;
    let answers = answers_of(rt, text.as_slice())?;
    if answers.as_slice() == expected.as_slice() {
        println!(rt; "{name}: answered as expected")?;
        Ok(())
    } else {
        let text = String::from_utf8_lossy(heap, answers.as_slice())?;
        println!(rt; "{name}: not answered as expected, but so:\n{text}")?;
        Err(anyhow!("an example was not answered as expected"))
    }
}

fn main(rt: HostRuntime) -> anyhow::Result<()> {
    for name in env::args(&rt)?.skip(1) {
        play_example(&rt, &name)?;
    }
    Ok(())
}
