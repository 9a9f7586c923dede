// Plain decimal and little-endian numbers, both ways.
#![tactic(auto)]

ghost use Rattle.std.specs.Prelude.{◌≡◌, true, cond, ◌+◌, ◌-◌, ◌*◌, ◌/◌, ◌%◌, ◌^◌, ◌≤◌, ◌<◌, ltb, length, drop, Err};
ghost use Rattle.slices.specs.Put.{put, left, placed};
ghost use Rattle.number.specs.Decimal.{decimal, two_digits, decimal_up_to, is_digit, all_digits, no_leading_zero};
ghost use Rattle.number.specs.LittleEndian.{little_endian, loaded};
ghost use Rattle.number.specs.declared.DecimalError.TheVariants.{NotPlain, Above};

// Why a run of bytes is no number up to a bound: it is no plain decimal, or it says a number above the bound.
#[derive(Clone, Copy, Debug, PartialEq, Eq)]
pub enum DecimalError {
    NotPlain,
    Above,
}

// So many digits fit a u64, whatever they are: 10 ^ 19 < 2 ^ 64.
const SAFE_DIGITS: usize = 19;

fn is_digit(b: u8) -> bool
    ensures { result ≡ is_digit b }
{
    b.is_ascii_digit()
}

// What a value above the bound answers: any later byte that is no digit makes it no decimal at all.
fn above(rest: &[u8]) -> Result<u64, DecimalError>
    ensures { result ≡ cond (all_digits rest.now) (Err Above) (Err NotPlain) }
{
    for &b in rest {
        if !is_digit(b) {
            return Err(DecimalError::NotPlain);
        }
    }
    Err(DecimalError::Above)
}

// Few digits: no step can wrap, so the bound is asked once, behind the last of them.
fn read_short(s: &[u8], most: u64) -> Result<u64, DecimalError>
    requires { (no_leading_zero s.now ≡ true) × (length s.now ≤ 19) }
    ensures { result ≡ decimal_up_to most s.now }
{
    let mut n: u64 = 0;
    for &b in s {
        if !is_digit(b) {
            return Err(DecimalError::NotPlain);
        }
        n = n * 10 + u64::from(b - b'0');
    }
    if n <= most {
        Ok(n)
    } else {
        Err(DecimalError::Above)
    }
}

// Any number of digits: the bound is asked before each is taken in, with no division in the loop.
fn read_long(s: &[u8], most: u64) -> Result<u64, DecimalError>
    requires { no_leading_zero s.now ≡ true }
    ensures { result ≡ decimal_up_to most s.now }
{
    let tenth = most / 10;
    let mut n: u64 = 0;
    for (i, &b) in s.iter().enumerate() {
        if !is_digit(b) {
            return Err(DecimalError::NotPlain);
        }
        let d = u64::from(b - b'0');
        if tenth < n {
            return above(&s[i + 1..]);
        }
        if most - n * 10 < d {
            return above(&s[i + 1..]);
        }
        n = n * 10 + d;
    }
    Ok(n)
}

// Plain decimal of at most `most`. Twenty and more digits never wrap: a value above the bound stays above it.
pub fn read_decimal(s: &[u8], most: u64) -> Result<u64, DecimalError>
    ensures { result ≡ decimal_up_to most s.now }
{
    if s.len() == 0 {
        return Err(DecimalError::NotPlain);
    }
    if s[0] == b'0' {
        if s.len() == 1 {
            return Ok(0);
        }
        return Err(DecimalError::NotPlain);
    }
    if s.len() <= SAFE_DIGITS {
        read_short(s, most)
    } else {
        read_long(s, most)
    }
}

// Whether a number has come to a power of ten: a digit more, or none.
fn reached(value: u64, power: u64) -> usize
    ensures { (result ≡ cond (ltb value power) 0 1) × (result ≤ 1) }
{
    usize::from(power <= value)
}

// How many digits a number has that has so many or up to three more. The power is the least number with one more.
fn digits_from(value: u64, digits: usize, power: u64) -> usize
    requires fact_1 { (digits ≤ length (decimal value)) × (length (decimal value) ≤ digits + 3) }
    requires fact_2 { (power ≡ 10 ^ digits) × (0 < digits) × (digits ≤ 17) }
    ensures { result ≡ length (decimal value) }
{
    digits + reached(value, power) + reached(value, power * 10) + reached(value, power * 100)
}

// How many digits a number has: it is compared with the powers of ten.
pub fn decimal_length(value: u64) -> usize
    ensures { (result ≡ length (decimal value)) × (result ≤ 20) }
{
    if value < 100 {
        return 1 + reached(value, 10);
    }
    if value < 10000 {
        return 3 + reached(value, 1000);
    }
    if value < 100000000 {
        return digits_from(value, 5, 100000);
    }
    if value < 1000000000000 {
        return digits_from(value, 9, 1000000000);
    }
    if value < 10000000000000000 {
        return digits_from(value, 13, 10000000000000);
    }
    digits_from(value, 17, 100000000000000000)
}

// The hundred pairs of digits, "00" to "99".
const PAIRS: [u8; 200] = *b"\
    0001020304050607080910111213141516171819\
    2021222324252627282930313233343536373839\
    4041424344454647484950515253545556575859\
    6061626364656667686970717273747576777879\
    8081828384858687888990919293949596979899";

// Two digits put at a place.
fn write_pair(n: u64, out: &mut [u8], at: usize)
    requires { (n < 100) × (at + 2 ≤ length out.old) }
    ensures { out.new ≡ put out.old at (two_digits n) }
{
    let first = 2 * n as usize;
    out[at] = PAIRS[first];
    out[at + 1] = PAIRS[first + 1];
}

// A number of one or two digits put at a place.
fn write_front(value: u64, out: &mut [u8], at: usize)
    requires { (value < 100) × (at + length (decimal value) ≤ length out.old) }
    ensures { out.new ≡ put out.old at (decimal value) }
{
    if value < 10 {
        out[at] = b'0' + value as u8;
        return;
    }
    write_pair(value, out, at);
}

// A number of at most four digits put at a place, from which it reaches to `end`.
fn write_few(value: u64, out: &mut [u8], at: usize, end: usize)
    requires fact_1 { value < 10000 }
    requires fact_2 { (end ≡ at + length (decimal value)) × (end ≤ length out.old) }
    ensures { out.new ≡ put out.old at (decimal value) }
{
    let mut first = value;
    if 100 <= value {
        write_pair(value % 100, out, end - 2);
        first = value / 100;
    }
    write_front(first, out, at);
}

// Four digits put before `end`, the last two first.
fn write_four(four: u64, out: &mut [u8], end: usize)
    requires { (four < 10000) × (4 ≤ end) × (end ≤ length out.old) }
    ensures { out.new ≡ put (put out.old (end - 2) (two_digits (four % 100))) (end - 4) (two_digits (four / 100)) }
{
    write_pair(four % 100, out, end - 2);
    write_pair(four / 100, out, end - 4);
}

// A number of three digits or more, four digits in a turn, the last first: each turn has what is left of the number, which no iterator of the library gives.
fn write_long(value: u64, digits: usize, out: &mut [u8], at: usize)
    requires { (digits ≡ length (decimal value)) × (at + digits ≤ length out.old) }
    ensures { out.new ≡ put out.old at (decimal value) }
{
    let mut end = at + digits;
    let mut v = value;
    while 10000 <= v {
        write_four(v % 10000, out, end);
        end -= 4;
        v = v / 10000;
    }
    write_few(v, out, at, end);
}

// A number's decimal digits put at a place, by a caller who has counted them and has room for them.
pub fn write_decimal(value: u64, digits: usize, out: &mut [u8], at: usize)
    requires { (digits ≡ length (decimal value)) × (at + digits ≤ length out.old) }
    ensures { out.new ≡ put out.old at (decimal value) }
{
    if value < 100 {
        write_front(value, out, at);
        return;
    }
    write_long(value, digits, out, at);
}

// One digit put at a place, if there is room for it.
fn print_digit(value: u64, out: &mut [u8], at: usize) -> Option<usize>
    requires { value < 10 }
    ensures { left result out.new ≡ placed out.old at (decimal value) }
{
    if !slices::has_room(out.len(), at, 1) {
        return None;
    }
    out[at] = b'0' + value as u8;
    let end = at + 1;
    Some(end)
}

// A number's decimal digits put at a place, if there is room for them. One digit has a way of its own: it is as quick as ever.
pub fn print_decimal(value: u64, out: &mut [u8], at: usize) -> Option<usize>
    ensures { left result out.new ≡ placed out.old at (decimal value) }
{
    if value < 10 {
        return print_digit(value, out, at);
    }
    let digits = decimal_length(value);
    if !slices::has_room(out.len(), at, digits) {
        return None;
    }
    write_decimal(value, digits, out, at);
    let end = at + digits;
    Some(end)
}

// The number in eight bytes at a place, if they lie inside.
pub fn load_u64(s: &[u8], at: usize) -> Option<u64>
    ensures { result ≡ loaded 8 s.now at }
{
    let bytes = s.get(at..)?.first_chunk()?;
    Some(u64::from_le_bytes(*bytes))
}

// A number's eight bytes put at a place, if there is room for them.
pub fn store_u64(value: u64, out: &mut [u8], at: usize) -> Option<usize>
    ensures { left result out.new ≡ placed out.old at (little_endian 8 value) }
{
    slices::copy(&value.to_le_bytes(), out, at)
}
