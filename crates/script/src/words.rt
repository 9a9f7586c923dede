// What the words of a line say, read as its row of the vocabulary wants them.
ghost use Rattle.std.specs.Prelude.{◌≡◌, slice_get};
ghost use Rattle.script.specs.Said.{said_number, said_signed, said_bytes};

use crate::vocabulary::Call;
use crate::{decimals, hex, lent};

// The bytes of all words that are hex: two digits each, of a line's 40,000 bytes.
pub type Bytes = [u8; 20000];

// No line has more words, its name with them.
pub const MOST: usize = 8;

// What a word says: a number, which may be below 0 or above an i64; the length of the lent buffer; or where its bytes begin and end.
#[derive(Clone, Copy)]
pub enum Value {
    Number(i128),
    Length(usize),
    Bytes { from: usize, to: usize },
}

// The line's call, the forms of its answer, how long a buffer it lends, and what each word says, its name first.
#[derive(Clone, Copy)]
pub struct Words {
    pub call: Call,
    pub forms: &'static [u8],
    pub lent: usize,
    pub values: [Value; MOST],
}

// A number from 0 on, of at most as much as the row says.
fn number(word: &[u8], most: &[u8]) -> Option<u64> {
    decimals::read(word, decimals::limit(most))
}

// A number that may be negative: it goes one further below 0 than above, and no further than 64 bits go.
fn signed(word: &[u8], most: &[u8]) -> Option<i128> {
    match word.strip_prefix(b"-") {
        Some(digits) => {
            let below = decimals::limit(most).min(i64::MAX.unsigned_abs()) + 1;
            Some(-i128::from(decimals::read(digits, below)?))
        }
        None => Some(i128::from(number(word, most)?)),
    }
}

// A word read as a row wants it; its bytes, if it is hex, go behind those that are there.
pub(crate) fn read(wanted: &[u8], word: &[u8], from: usize, bytes: &mut Bytes) -> Option<Value> {
    match wanted {
        [b'#', most @ ..] => Some(Value::Number(i128::from(number(word, most)?))),
        [b'@', most @ ..] => Some(Value::Length(number(word, most)? as usize)),
        [b'~', most @ ..] => Some(Value::Number(signed(word, most)?)),
        [b'$', ..] => {
            let to = hex::read(word, bytes, from)?;
            Some(Value::Bytes { from, to })
        }
        name => (name == word).then_some(Value::Number(0)),
    }
}

// ---- what was read

// What the k-th word says, as a call takes it.
impl Words {
    // A number of 64 bits with a sign. Not one function with `number`: the type says which one stands for those that it has no room for.
    pub fn signed(&self, k: usize) -> i64
        ensures { result ≡ said_signed (slice_get self.now.values k) }
    {
        match self.values.get(k) {
            Some(Value::Number(n)) => i64::try_from(*n).unwrap_or(i64::MAX),
            _ => 0,
        }
    }

    // A number from 0 on: one below counts as the largest, which no facility and no level is.
    pub fn number(&self, k: usize) -> u64
        ensures { result ≡ said_number (slice_get self.now.values k) }
    {
        match self.values.get(k) {
            Some(Value::Number(n)) => u64::try_from(*n).unwrap_or(u64::MAX),
            _ => 0,
        }
    }

    // Bytes, of those of all words.
    pub fn bytes<'a>(&self, k: usize, bytes: &'a Bytes) -> &'a [u8]
        ensures { result.now ≡ said_bytes bytes.now (slice_get self.now.values k) }
    {
        match self.values.get(k) {
            Some(Value::Bytes { from, to }) => lent::between(bytes, *from, *to),
            _ => &[],
        }
    }
}
