use std::io;

// What a receiver has done: frames taken and refused, PDUs and octets collected, and a sum over those octets.
#[derive(Clone, Copy, Default)]
pub struct Tally {
    pub frames: u32,
    pub refused: u32,
    pub pdus: u32,
    pub octets: u64,
    pub sum: u64,
}

// The first octet of a frame's data, in a PDU that begins with that frame.
const DATA_PLACE: usize = 13;

impl Tally {
    // Puts a number into the sum, in which order counts.
    pub fn mix(&mut self, number: u64) {
        self.sum = self.sum.wrapping_mul(31).wrapping_add(number);
    }

    pub fn acquired(&mut self, taken: bool) {
        if taken {
            self.frames = self.frames.wrapping_add(1);
        } else {
            self.refused = self.refused.wrapping_add(1);
        }
    }

    fn count(&mut self, pdu: &[u8]) {
        self.pdus = self.pdus.wrapping_add(1);
        self.octets = self.octets.wrapping_add(pdu.len() as u64);
    }

    // Enters a PDU that was collected, every octet of it, which shows that two programs collect the same.
    pub fn enter_whole(&mut self, pdu: &[u8]) {
        self.count(pdu);
        for octet in pdu {
            self.mix(u64::from(*octet));
        }
    }

    // Enters a PDU that was collected by its ends, which is enough while time is taken: the sum should not use it up.
    pub fn enter_ends(&mut self, pdu: &[u8]) {
        self.count(pdu);
        if let Some(last) = pdu.last() {
            self.mix(u64::from(*pdu.get(DATA_PLACE).unwrap_or(last)));
            self.mix(u64::from(*last));
        }
    }

    // The tally in a row, behind what it is of.
    pub fn show(&self, rt: &HostRuntime) -> io::Result<()> {
        println!(rt;
            " {} {} {} {} {}",
            self.frames, self.refused, self.pdus, self.octets, self.sum
        )
    }
}
