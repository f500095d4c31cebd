ghost use Rattle.std.specs.Prelude.{OnOk};
ghost use Rattle.std.specs.Fmt.{AppendsText};

use std::alloc::AllocError;
use std::fmt::Display;
use std::io::Write;

// Puts what a value prints behind an answer.
pub fn say<D: Display + Drop>(out: &mut Vec<u8>, what: D) -> Result<(), AllocError>
    ensures { OnOk result (AppendsText out.old.items out.new.items (D.output what)) }
{
    out.write_fmt(what).map_err(|_| AllocError)
}
