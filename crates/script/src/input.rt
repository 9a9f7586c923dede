// Lines of standard input, taken from chunks of it.
ghost use Rattle.std.specs.Prelude.{◌≡◌, ◌≤◌, false, IfOk, IfSome, length};

use crate::lent;
use std::io;
use std::io::{Input, Read};

// The longest line of a script.
const LINE_MOST: usize = 40000;

// Standard input, a chunk of it at a time: a program has no memory but its stack, so the chunk and the line have a size, and the bytes in use lie between
// places of them.
#[derive(Drop)]
pub struct Lines {
    chunk: [u8; 65536],
    // where the bytes of the chunk lie that no line has taken yet
    from: usize,
    to: usize,
    // the line that was taken last, with room for one byte more, to see a line that is longer
    line: [u8; 40001],
    ended: bool,
}

// A piece of a line put behind what has come of it: one more than the longest, where there is no room.
fn with_piece(piece: &[u8], line: &mut [u8], length: usize) -> usize {
    slices::copy(piece, line, length).unwrap_or(LINE_MOST + 1)
}

impl Lines {
    // Nothing is read yet.
    pub fn new() -> Self
        ensures { (result.from ≡ 0) × (result.to ≡ 0) × (result.ended ≡ false) }
    {
        Lines {
            chunk: [0; 65536],
            from: 0,
            to: 0,
            line: [0; 40001],
            ended: false,
        }
    }

    // Takes the next line: how many bytes it has, one more than the longest where it has more. A proved loop has to end, and nothing says that a line
    // does: so the reads are counted.
    fn take(&mut self, rt: &impl Input) -> io::Result<usize> {
        let mut length = 0;
        for _ in 0..u64::MAX {
            if self.to <= self.from {
                self.from = 0;
                self.to = rt.reader().read(&mut self.chunk)?;
            }
            if self.to == 0 {
                break;
            }
            let waiting = lent::between(&self.chunk, self.from, self.to);
            let n = slices::until(waiting, b'\n');
            let ends = n < waiting.len();
            length = with_piece(slices::front(waiting, n), &mut self.line, length);
            if ends {
                self.from = self.from.wrapping_add(n).wrapping_add(1);
                return Ok(length);
            }
            self.from = self.to;
        }
        self.ended = true;
        Ok(length)
    }

    // The next line, if there is one. A line that is too long has no bytes, and is no call.
    pub fn next_line(&mut self, rt: &impl Input) -> io::Result<Option<&[u8]>>
        ensures { IfOk result (λ next. IfSome next (λ line. length line.now ≤ 40000)) }
    {
        if self.ended {
            return Ok(None);
        }
        let length = self.take(rt)?;
        if self.ended & (length == 0) {
            return Ok(None);
        }
        if LINE_MOST < length {
            return Ok(Some(&[]));
        }
        Ok(Some(slices::front(&self.line, length)))
    }
}
