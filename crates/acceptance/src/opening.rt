ghost use Rattle.std.specs.Prelude.{◌≡◌};
ghost use Rattle.acceptance.specs.Calls.{opening_said};
ghost use Rattle.provider.specs.Opening.{opening_asked};

use piles::shape::{PileShape, take_pile};
use provider::settings::Opening;
use script::calls::CallLine;
use script::complaint::Complaint;

// What a script's first line opens a provider with: an `Opening` whose identifier is its own, and two piles.
#[derive(Drop)]
pub struct ScriptOpening {
    pub frames: PileShape,
    pub transport: PileShape,
    pub buffer_size: u32,
    pub latency_limit: u32,
    pub version: u32,
    pub identifier: Vec<u8>,
}

impl ScriptOpening {
    // What the provider is opened with, the identifier lent.
    pub fn lent(&self) -> Opening<'_>
        ensures { opening_asked result ≡ opening_said self.now }
    {
        Opening {
            buffer_size: self.buffer_size,
            latency_limit: self.latency_limit,
            version: self.version,
            identifier: self.identifier.as_slice(),
        }
    }
}

// The opening that a script's first call says.
pub fn take_opening(line: CallLine) -> Result<ScriptOpening, Complaint> {
    let CallLine {
        word,
        mut arguments,
        ..
    } = line;
    if word != b"open".as_slice() {
        return Err(arguments.unknown(word, "open, before all calls"));
    }
    let opening = ScriptOpening {
        frames: take_pile(&mut arguments)?,
        transport: take_pile(&mut arguments)?,
        buffer_size: arguments.number("N of open")?,
        latency_limit: arguments.number("L of open")?,
        version: arguments.number("VERSION of open")?,
        identifier: arguments.octets("IDENTIFIER of open")?,
    };
    arguments.end()?;
    Ok(opening)
}
