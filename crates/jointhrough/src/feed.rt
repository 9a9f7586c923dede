// Messages that are handed over in turn.
ghost use Rattle.std.specs.Prelude.{◌≤◌, length};

// Messages of one size, and the place of the next one: a slice of it could not be kept, since the messages are written to in place.
#[derive(Drop)]
pub struct Feed<'a> {
    messages: &'a mut [u8],
    at: usize,
    size: usize,
    // the place, in a message, behind the digit that is raised (0: none is)
    digit: usize,
    ghost inside: { at ≤ length messages.now },
}

impl<'a> Feed<'a> {
    pub fn new(messages: &'a mut [u8], size: usize, digit: usize) -> Self {
        Self {
            messages,
            at: 0,
            size,
            digit,
        }
    }

    pub fn message(&self) -> &[u8] {
        slices::front(&self.messages[self.at..], self.size)
    }

    // The message's number raised, so that the message is no late one when it comes again; and on to the next: the first, behind the last.
    pub fn pass(&mut self) {
        if self.digit != 0 {
            raise(self.messages, self.at.wrapping_add(self.digit));
        }
        let next = self.at.wrapping_add(self.size);
        self.at = if next < self.messages.len() { next } else { 0 };
    }
}

// The digit before a place, raised by one, with its carry.
fn raise(feed: &mut [u8], end: usize) {
    let Some(digits) = feed.get_mut(..end) else {
        return;
    };
    for digit in digits.iter_mut().rev() {
        if *digit < b'9' {
            *digit += 1;
            return;
        }
        *digit = b'0';
    }
}
