// Parts of a slice of bytes: where a byte stands first, what stands before it and past it, and bytes put into a buffer.
#![tactic(auto)]

ghost use Rattle.std.specs.Prelude.{◌≡◌, ℕ, true, false, suc, ◌+◌, ◌-◌, ◌≤◌, ◌<◌, leb, length, get_or, take, drop};
ghost use Rattle.slices.specs.Cut.{has, before, place, occurrences};
ghost use Rattle.slices.specs.Put.{left, placed};

// So many bytes are looked at in one go, without a branch for each.
pub const STRIDE: usize = 16;

// So many are counted in one go: their count fits a byte, so that the compiler's loop takes many at a time.
const BLOCK: usize = 192;

// How many bytes stand before the first c: all, if there is none.
pub fn until(s: &[u8], c: u8) -> usize
    ensures { result ≡ length (before c s.now) }
{
    find(s, c).unwrap_or(s.len())
}

pub fn find(s: &[u8], c: u8) -> Option<usize>
    ensures { result ≡ place c s.now }
{
    s.iter().position(|b| *b == c)
}

// A zero byte is among them. The least byte tells: its loop has no branch for a byte, so that the compiler makes it one that takes many at a time.
pub fn has_zero(s: &[u8]) -> bool
    ensures { result ≡ has 0 s.now }
{
    s.iter().fold(255, |least: u8, b| least.min(*b)) == 0
}

// How many of a block's bytes are c.
fn occurrences_in_block(block: &[u8], c: u8) -> u8
    requires { length block.now ≤ 255 }
    ensures { result ≡ occurrences c block.now }
{
    let mut n: u8 = 0;
    for &b in block {
        if b == c {
            n += 1;
        }
    }
    n
}

// How many of the bytes are c. Blocks by `chunks` take twice the time of blocks cut off the front.
pub fn occurrences(s: &[u8], c: u8) -> usize
    ensures { result ≡ occurrences c s.now }
{
    let mut n = 0;
    let mut rest = s;
    while let Some((block, tail)) = rest.split_first_chunk::<BLOCK>() {
        n += usize::from(occurrences_in_block(block, c));
        rest = tail;
    }
    n + usize::from(occurrences_in_block(rest, c))
}

// A test holds of every byte of a stride. It is asked of each of them, without a branch for a byte, so that the compiler's loop takes all at a time.
pub fn all_in_stride<F: Fn(u8) -> bool>(stride: &[u8; STRIDE], test: F) -> bool
    requires { F.IsAlwaysCallable test }
    ensures yes { result ≡ true → (i : ℕ) → i < 16 → F.post test (get_or stride.now i 0) true }
    ensures no { result ≡ false → (i : ℕ) × (i < 16) × F.post test (get_or stride.now i 0) false }
{
    let mut all = true;
    for &b in stride {
        all &= test(b);
    }
    all
}

// What is left of some bytes behind their strides without c. A place steps here: strides cut off the front of a rest took a third more instructions.
fn behind_strides(s: &[u8], c: u8) -> &[u8]
    ensures { (length result.now ≤ length s.now) × (length s.now - length result.now + length (before c result.now) ≡ length (before c s.now)) }
{
    let mut at = 0;
    while let Some(stride) = s[at..].first_chunk::<STRIDE>() {
        if !all_in_stride(stride, |b| b != c) {
            break;
        }
        at += STRIDE;
    }
    &s[at..]
}

// The place of the first c from a place on: the end, if there is none. Bytes without c are passed many at a time.
pub fn next(s: &[u8], c: u8, from: usize) -> usize
    ensures { result ≡ from + length (before c (drop from s.now)) }
{
    let Some(ahead) = s.get(from..) else {
        return from;
    };
    let rest = behind_strides(ahead, c);
    from + (ahead.len() - rest.len()) + until(rest, c)
}

// The first n bytes: all, if there are fewer.
pub fn front(s: &[u8], n: usize) -> &[u8]
    ensures { result.now ≡ take n s.now }
{
    &s[..n.min(s.len())]
}

// What stands past the place n: nothing, if that is the last place or none.
pub fn past(s: &[u8], n: usize) -> &[u8]
    ensures { result.now ≡ drop (suc n) s.now }
{
    if n < s.len() { &s[n + 1..] } else { &[] }
}

// So many bytes fit behind a place of a buffer.
pub fn has_room(size: usize, at: usize, bytes: usize) -> bool
    ensures { result ≡ leb (at + bytes) size }
{
    at <= size && bytes <= size - at
}

// Bytes put at a place, if there is room for them. Here and above, a buffer and a place in it are two arguments: the contracts of the public functions that
// write name both. The part is cut by its ends, since of a part that `get_mut` gives nothing is known of what the buffer holds afterwards.
pub fn copy(bytes: &[u8], out: &mut [u8], at: usize) -> Option<usize>
    ensures { left result out.new ≡ placed out.old at bytes.now }
{
    if !has_room(out.len(), at, bytes.len()) {
        return None;
    }
    let end = at + bytes.len();
    out[at..end].copy_from_slice(bytes);
    Some(end)
}
