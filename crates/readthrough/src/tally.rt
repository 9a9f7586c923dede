// What was read: how many records, and a checksum of their lines.
use std::fmt;
use workload::checksum::Sum;

#[derive(Clone, Copy)]
pub struct Tally {
    pub records: u64,
    pub lines: Sum,
}

impl Tally {
    pub fn new() -> Self {
        Self {
            records: 0,
            lines: Sum::new(),
        }
    }

    // One line more. The count wraps.
    pub fn add(&mut self, line: &[u8]) {
        self.records = self.records.wrapping_add(1);
        self.lines = self.lines.with(line);
    }
}

impl fmt::Display for Tally {
    fn fmt<W: fmt::Write>(&self, f: &mut fmt::Formatter<W>) -> fmt::Result {
        let Sum { bytes, weighed, .. } = self.lines;
        write!(
            f,
            "{} records, {bytes} bytes, checksum {weighed}",
            self.records
        )
    }
}
