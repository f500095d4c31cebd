ghost use Rattle.std.specs.Prelude.{◌≡◌, cond, is_some, IfOk};
ghost use Rattle.std.specs.Process.{exit_status};

use crate::complaint::FaultyLine;
use std::io;
use std::io::{Eprint, Write};
use std::process::ExitCode;

// The answers to a script, and the line at which it stopped, if any.
#[derive(Drop)]
pub struct Played {
    pub answers: Vec<u8>,
    pub fault: Option<FaultyLine>,
}

impl Played {
    // Prints the answers, and tells of the faulty line, if any; a program ends with the status that this gives.
    pub fn tell<R: Print + Eprint>(self, rt: &R) -> io::Result<ExitCode>
        ensures { IfOk result (λ code. exit_status code ≡ cond (is_some self.fault) 1 0) }
    {
        let Played { answers, fault } = self;
        io::writer(rt).write_all(answers.as_slice())?;
        let Some(fault) = fault else {
            return Ok(ExitCode::SUCCESS);
        };
        rt.eprintln(fault)?;
        Ok(ExitCode::FAILURE)
    }
}
