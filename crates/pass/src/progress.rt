use replay::watcher::Watcher;
use std::io;
use std::io::IsTerminal;

// A script is long from so many lines on, and progress is shown after each such number of calls.
const LONG: usize = 20_000;

// Shows on a terminal how far a long script has been played.
#[derive(Drop)]
pub struct Progress {
    rt: HostRuntime,
    shown: bool,
    lines: usize,
}

impl Progress {
    // Progress is shown if the script is long and standard error is a terminal.
    pub fn of_script(rt: &HostRuntime, text: &[u8]) -> io::Result<Progress> {
        let lines = text.iter().filter(|octet| **octet == b'\n').count();
        Ok(Progress {
            rt: rt.clone()?,
            shown: lines >= LONG && rt.stderr().is_terminal(),
            lines,
        })
    }
}

impl Watcher for Progress {
    fn played(&mut self, calls: usize) {
        if self.shown && calls % LONG == 0 {
            let lines = self.lines;
            let _ = eprintln!(self.rt; "played {calls} calls of a script of {lines} lines");
        }
    }
}
