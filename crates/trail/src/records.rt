// The records of a trail, each as the line that a read of the log writes of it.
use image::Ending;
use line::Parts;
use record::Heading;
use savedtrail::{Reader, Told};
use std::io;

// What was printed: how many lines, the edition that the trail was read in, and how it ended.
#[derive(Clone, Copy)]
pub struct Printed {
    pub records: u64,
    pub edition: u16,
    pub ending: Ending,
}

// A line could not be written.
#[derive(Clone, Copy, Debug, PartialEq, Eq)]
pub struct Unwritten;

impl From<io::Error> for Unwritten {
    fn from(_error: io::Error) -> Unwritten {
        Unwritten
    }
}

// The line of a record, put at the front of a buffer that has room for the longest. Heading, text and dictionary are what a reader hands out and what a line is
// made of, each by a struct of its own crate: one more between the two would be no plainer.
fn place(h: Heading, text: &[u8], dictionary: &[u8], line: &mut [u8]) -> Option<usize> {
    let room = Heading::PAYLOAD.checked_sub(text.len())?;
    if room < dictionary.len() {
        return None;
    }
    let parts = Parts {
        text,
        more: &[],
        dictionary,
        others: &[],
    };
    line::place_line(h, parts, line)
}

// A line that has no room is none of ours.
fn print_record(rt: &impl Print, h: Heading, res: &[u8], line: &mut [u8]) -> Result<(), Unwritten> {
    let text = slices::front(res, usize::from(h.text));
    let behind = res.get(text.len()..).unwrap_or(&[]);
    let dictionary = slices::front(behind, usize::from(h.dictionary));
    let length = place(h, text, dictionary, line).ok_or(Unwritten)?;
    rt.write_all(slices::front(line, length))?;
    Ok(())
}

// Prints a file's records, one after the other. A proved loop has to end: so the calls are counted.
pub fn print(rt: &impl Print, file: &[u8]) -> Result<Printed, Unwritten> {
    let mut result = [0u8; Reader::RESULT_LEAST];
    let mut line = [0u8; Heading::LINE_MOST];
    let mut reader = Reader::new();
    for records in 0..u64::MAX {
        let handed = savedtrail::next(reader, file, &mut result);
        reader = handed.reader;
        match handed.told {
            Told::Given(h, _) => print_record(rt, h, &result, &mut line)?,
            Told::Over(ending) => {
                return Ok(Printed {
                    records,
                    edition: reader.blocks.edition,
                    ending,
                });
            }
            // the result buffer has room for every record
            Told::Room => return Err(Unwritten),
        }
    }
    Err(Unwritten)
}
