// The numbers of a script: decimal with leading zeros allowed.
ghost use Rattle.std.specs.Prelude.{◌≤◌};

// A number without the zeros in front of it: of zeros alone one is left.
fn plain(word: &[u8]) -> &[u8] {
    match word.iter().position(|b| *b != b'0') {
        Some(first) => &word[first..],
        None => slices::front(word, 1),
    }
}

// A number of at most `most`.
pub(crate) fn read(word: &[u8], most: u64) -> Option<u64> {
    number::read_decimal(plain(word), most).ok()
}

// The largest number that a row of the vocabulary allows: any, where it names none.
pub(crate) fn limit(most: &[u8]) -> u64 {
    number::read_decimal(most, u64::MAX).unwrap_or(u64::MAX)
}

// A number of the type i32 as that type; others as its ends, where try_from would know one end alone.
pub fn narrow(v: i64) -> i32 {
    v.clamp(i64::from(i32::MIN), i64::from(i32::MAX)) as i32
}

// A length of at most `most`.
pub fn size(n: u64, most: usize) -> usize
    ensures { result ≤ most }
{
    n.min(most as u64) as usize
}

// A number below 256 as a byte. An `as` that narrows has to fit, so of others the remainder is taken.
pub fn byte(n: u64) -> u8 {
    (n % 256) as u8
}

// A number below 2^32 as one of 32 bits.
pub fn word(n: u64) -> u32 {
    (n % 4294967296) as u32
}
