use packed::example::ten_octets;
use std::io;

// Plays the packed queue of ten octets and shows what it answers.
pub fn show(rt: &HostRuntime) -> io::Result<()> {
    print!(rt; "ten octets:")?;
    for answer in ten_octets() {
        match answer {
            Ok(()) => print!(rt; " done")?,
            Err(refusal) => print!(rt; " refused {}", refusal.number())?,
        }
    }
    println!(rt; "")
}
