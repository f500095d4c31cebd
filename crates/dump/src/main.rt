// Takes octets apart: prints what a PDU or an invocation says, field by field, or where it is faulty.
#![tactic(auto)]

use std::io::Read;
use std::process::ExitCode;

mod invocations;
mod play;
mod records;

fn main(rt: HostRuntime) -> anyhow::Result<ExitCode> {
    let heap = rt.alloc();
    let mut text = Vec::new(heap);
    rt.stdin().read_to_end(&mut text)?;
    let played = play::play(text.as_slice(), heap);
    Ok(played.tell(&rt)?)
}
