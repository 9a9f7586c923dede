// What is told of the records handed out: a tally that costs little, for the reads that are timed, and a checksum of all bytes. The sums wrap.
use record::Heading;
use std::fmt;
use workload::checksum::Sum;

// How many records and bytes of text and dictionary, and the sum of the times and of each record's last byte. No `Sum`: it counts other things.
#[derive(Clone, Copy, Default)]
pub struct Tally {
    pub records: u64,
    pub bytes: u64,
    pub sum: u64,
}

impl Tally {
    // One record more: its heading, and the result buffer.
    pub fn add(&mut self, h: Heading, res: &[u8]) {
        let n = payload(h);
        let last = slices::front(res, n).last().map_or(0, |b| u64::from(*b));
        let told = h.time.wrapping_add(last);
        self.records = self.records.wrapping_add(1);
        self.bytes = self.bytes.wrapping_add(n as u64);
        self.sum = self.sum.wrapping_add(told);
    }
}

impl fmt::Display for Tally {
    fn fmt<W: fmt::Write>(&self, f: &mut fmt::Formatter<W>) -> fmt::Result {
        write!(
            f,
            "{} records read, {} bytes, sum {}",
            self.records, self.bytes, self.sum
        )
    }
}

// Bytes of text and dictionary.
fn payload(h: Heading) -> usize {
    usize::from(h.text) + usize::from(h.dictionary)
}

// A sum with one record more: its heading as it is stored, text and dictionary.
pub fn with_record(sum: Sum, h: Heading, res: &[u8]) -> Sum {
    sum.with(&record::heading_bytes(h))
        .with(slices::front(res, payload(h)))
}
