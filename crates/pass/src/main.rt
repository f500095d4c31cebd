// Plays a receiver's acceptance script on a provider, and answers each call.
#![tactic(auto)]

use acceptance::play::play;
use progress::Progress;
use std::io::Read;
use std::process::ExitCode;
use std::{env, fs};

mod progress;

// The text of a file, or none where it cannot be read, which is told.
fn file_text(rt: &HostRuntime, name: &str) -> anyhow::Result<Option<Vec<u8>>> {
    // A `match`, since to tell of the error may fail itself.
    match fs::read(rt, name) {
        Ok(text) => Ok(Some(text)),
        Err(error) => {
            eprintln!(rt;
                "pass: the script {name} cannot be read: {error}; expected the name of a file"
            )?;
            Ok(None)
        }
    }
}

// The script: the file that the first argument names, or else standard input.
fn script_text(rt: &HostRuntime) -> anyhow::Result<Option<Vec<u8>>> {
    if let Some(name) = env::args(rt)?.nth(1) {
        return file_text(rt, &name);
    }
    let mut text = Vec::new(rt.alloc());
    rt.stdin().read_to_end(&mut text)?;
    Ok(Some(text))
}

fn main(rt: HostRuntime) -> anyhow::Result<ExitCode> {
    let Some(text) = script_text(&rt)? else {
        return Ok(ExitCode::FAILURE);
    };
    let progress = Progress::of_script(&rt, &text)?;
    Ok(play(&text, rt.alloc(), progress)?.tell(&rt)?)
}
