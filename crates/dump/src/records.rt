ghost use Rattle.std.specs.Prelude.{◌≡◌, ◌++◌, OnOk, Some};
ghost use Rattle.codec.specs.Times.{stamp};
ghost use Rattle.codec.specs.RecordReading.{content_or, record_at, said};
ghost use Rattle.dump.specs.Lines.{fault_line, time_text, status_text, content_text, part_line, pdu_lines};

use codec::fault::Fault;
use codec::record::{
    Notification, ProductionStatus, RecordContent, RecordPart, RecordReader, record_content,
};
use codec::time::Time;
use script::output::say;
use std::alloc::AllocError;
use std::fmt;

// A fault, printed as its line.
#[derive(Clone, Copy)]
pub struct FaultLine(pub Fault);

impl fmt::Display for FaultLine {
    ghost output = { λ l. Some (fault_line l.0) };

    fn fmt<W: fmt::Write>(&self, f: &mut fmt::Formatter<W>) -> fmt::Result {
        let fault = self.0;
        writeln!(f, "fault {fault}")
    }
}

// A time, printed as its three numbers.
#[derive(Clone, Copy)]
pub struct TimeText(pub Time);

impl fmt::Display for TimeText {
    ghost output = { λ t. Some (time_text (stamp t.0)) };

    fn fmt<W: fmt::Write>(&self, f: &mut fmt::Formatter<W>) -> fmt::Result {
        let day = self.0.day();
        let millisecond = self.0.millisecond();
        let microsecond = self.0.microsecond();
        write!(f, "{day} {millisecond} {microsecond}")
    }
}

// A production status, printed in words.
#[derive(Clone, Copy)]
struct StatusText(ProductionStatus);

impl fmt::Display for StatusText {
    ghost output = { λ s. Some (status_text s.0) };

    fn fmt<W: fmt::Write>(&self, f: &mut fmt::Formatter<W>) -> fmt::Result {
        match self.0 {
            ProductionStatus::Running => write!(f, "running"),
            ProductionStatus::Interrupted => write!(f, "interrupted"),
            ProductionStatus::Halted => write!(f, "halted"),
        }
    }
}

// What a record says, printed without its place.
#[derive(Clone, Copy)]
struct ContentText(RecordContent);

impl fmt::Display for ContentText {
    ghost output = { λ c. Some (content_text (said c.0)) };

    fn fmt<W: fmt::Write>(&self, f: &mut fmt::Formatter<W>) -> fmt::Result {
        match self.0 {
            RecordContent::Frame {
                quality,
                time,
                data_length,
            } => {
                let quality = u8::from(quality);
                let time = TimeText(time);
                write!(f, "frame quality {quality} time {time} data {data_length}")
            }
            RecordContent::Notification(Notification::LossOfFrameSynchronization(time)) => {
                let time = TimeText(time);
                write!(f, "loss of frame synchronization time {time}")
            }
            RecordContent::Notification(Notification::ProductionStatusChange(status)) => {
                let status = StatusText(status);
                write!(f, "production status {status}")
            }
            RecordContent::Notification(Notification::EndOfData) => write!(f, "end of data"),
        }
    }
}

// The line of a record: its place and what it says.
fn say_record(out: &mut Vec<u8>, part: RecordPart) -> Result<(), AllocError>
    ensures { OnOk result (out.new.items ≡ out.old.items ++ part_line part.entry.place (content_or (record_at part.entry.octets.now 0))) }
{
    match record_content(part.octets) {
        Ok(content) => {
            let place = part.place;
            let text = ContentText(content);
            say(out, format_args!("{place} {text}\n"))
        }
        Err(fault) => say(out, FaultLine(fault)),
    }
}

// A line for each record of a PDU, and then its end or its fault.
pub fn say_pdu(out: &mut Vec<u8>, pdu: &[u8]) -> Result<(), AllocError>
    ensures { OnOk result (out.new.items ≡ out.old.items ++ pdu_lines pdu.now) }
{
    let mut reader = RecordReader::new(pdu);
    // A loop, since an iterator over the reader would not end: after a fault the reader stays where it is.
    loop {
        match reader.next() {
            Ok(Some(part)) => say_record(out, part)?,
            Ok(None) => return say(out, "end\n"),
            Err(fault) => return say(out, FaultLine(fault)),
        }
    }
}
