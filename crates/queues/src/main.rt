// Plays a script of calls on one queue, and answers each.
#![tactic(auto)]

use play::play;
use std::io::Read;
use std::process::ExitCode;

mod answer;
mod call;
mod play;
#[cfg(test)]
mod tests;

fn main(rt: HostRuntime) -> anyhow::Result<ExitCode> {
    let mut text = Vec::new(rt.alloc());
    rt.stdin().read_to_end(&mut text)?;
    Ok(play(&text, rt.alloc())?.tell(&rt)?)
}
