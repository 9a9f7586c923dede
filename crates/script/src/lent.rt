// Lent buffers: parts of them, their bytes before a call, and whether those stayed that should have.
ghost use Rattle.std.specs.Prelude.{◌≡◌};
ghost use Rattle.script.specs.Said.{between};

// A lent buffer is filled with this byte before a call.
pub const FILL: u8 = 165;

// Room for the longest buffer that a line lends, and for what is told of other buffers.
pub type Space = [u8; 300000];

// Every byte from a place on is as it was before the call. Each is looked at, without a branch, so that the compiler's loop takes many at a time.
pub fn stayed(buffer: &[u8], from: usize) -> bool {
    let rest = buffer.get(from..).unwrap_or(&[]);
    rest.iter().fold(true, |all, b| all & (*b == FILL))
}

// The bytes from one place to another, as far as they lie inside.
pub(crate) fn between(buffer: &[u8], from: usize, to: usize) -> &[u8]
    ensures { result.now ≡ between buffer.now from to }
{
    buffer.get(from..to.min(buffer.len())).unwrap_or(&[])
}

// The bytes from a place on, so many at most.
pub fn part(buffer: &[u8], from: usize, most: usize) -> &[u8] {
    between(buffer, from, from.saturating_add(most))
}

// The first bytes, so many at most, to be lent on.
pub fn first(buffer: &mut [u8], most: usize) -> &mut [u8] {
    let n = most.min(buffer.len());
    &mut buffer[..n]
}

// So many first bytes, as a call finds the buffer that it is lent.
pub fn prepare(space: &mut [u8], most: usize) {
    first(space, most).fill(FILL);
}

// Bytes put from a place on, as far as the buffer reaches.
pub fn put(bytes: &[u8], buffer: &mut [u8], place: usize) {
    for (to, b) in buffer.iter_mut().skip(place).zip(bytes) {
        *to = *b;
    }
}

// From one place of a ring on to another: so many bytes.
pub fn distance(from: usize, to: usize, capacity: usize) -> usize {
    if from <= to {
        return to - from;
    }
    if capacity < from {
        return 0;
    }
    let before_end = capacity - from;
    if to < capacity { before_end + to } else { 0 }
}

// A place of a ring lies among so many bytes from another place on.
fn is_inside(place: usize, from: usize, bytes: usize, capacity: usize) -> bool {
    if from <= place {
        return place - from < bytes;
    }
    if capacity < from {
        return false;
    }
    // the bytes before the ring's end come first
    let before_end = capacity - from;
    if bytes <= before_end {
        return false;
    }
    place < bytes - before_end
}

// Every byte is as it was, but for so many from a place of a ring on. By place: a `zip` asks for the end of both at each byte, nearly twice the steps.
pub fn stayed_around(before: &[u8], after: &[u8], from: usize, bytes: usize) -> bool {
    let capacity = after.len();
    if before.len() < capacity {
        return false;
    }
    for (k, b) in after.iter().enumerate() {
        if before[k] != *b && !is_inside(k, from, bytes, capacity) {
            return false;
        }
    }
    true
}
