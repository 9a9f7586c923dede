// What was given, told of the answers of a joiner. The counts and sums wrap.
use joiner::{Answer, Text, Texts};
use std::fmt;

// Texts and their bytes, the sum of each text's facility and last byte; and the refusals, with the sum of their numbers.
#[derive(Clone, Copy, Default)]
pub struct Tally {
    texts: u64,
    bytes: u64,
    marks: u64,
    refused: u64,
    refusals: u64,
}

impl Tally {
    fn add_text(&mut self, text: Text, res: &[u8]) {
        let last = slices::front(res, text.size)
            .last()
            .map_or(0, |b| u64::from(*b));
        let mark = text.facility.wrapping_add(last);
        self.texts = self.texts.wrapping_add(1);
        self.bytes = self.bytes.wrapping_add(text.size as u64);
        self.marks = self.marks.wrapping_add(mark);
    }

    // One answer more, with the results that its texts lie in: two buffers, as a joiner is lent them.
    pub fn add(&mut self, answer: Answer, first: &[u8], second: &[u8]) {
        match answer {
            Ok(Texts::Nothing) => {}
            Ok(Texts::One(a)) => self.add_text(a, first),
            Ok(Texts::Two(a, b)) => {
                self.add_text(a, first);
                self.add_text(b, second);
            }
            Err(why) => {
                self.refused = self.refused.wrapping_add(1);
                self.refusals = self.refusals.wrapping_add(u64::from(u32::from(why)));
            }
        }
    }
}

impl fmt::Display for Tally {
    fn fmt<W: fmt::Write>(&self, f: &mut fmt::Formatter<W>) -> fmt::Result {
        let Tally {
            texts,
            bytes,
            marks,
            refused,
            refusals,
        } = *self;
        write!(
            f,
            "{texts} texts of {bytes} bytes, marks {marks}; {refused} refused, numbers {refusals}"
        )
    }
}
