// The words of a script, all in one place: a row for each kind of line, with the call that it is, its words, and the forms of its answer, parted by "|".
// A word is a name that has to stand there, or
//
//   #N   a number of at most N, or any number where no N stands
//   @N   such a number, which is the length of the buffer that the line lends
//   ~N   a number that may be negative, of a type whose largest is N; any number where no N stands
//   $    bytes as hex
//
// A form has names and n, i, h, m: the next number that the call tells, its answer, which may be negative, the bytes that it tells as hex, and more
// bytes behind those. A call tells which of its forms is meant, from 0.
use crate::words;
use crate::words::{Bytes, Value, Words};

// A kind of line: something new, a call on what was made, or a question that takes its line alone.
#[derive(Clone, Copy, Debug, PartialEq, Eq)]
pub enum Call {
    Log,
    OnLog(OnLog),
    Board,
    OnBoard(OnBoard),
    Joiner,
    OnJoiner(OnJoiner),
    Line,
    Console,
    Disk,
    OnDisk(OnDisk),
}

#[derive(Clone, Copy, Debug, PartialEq, Eq)]
pub enum OnLog {
    Check,
    Numbers,
    Peek,
    Poke,
    Set(Setting),
    Outside,
    Box,
    Reader,
    OnReader(OnReader),
    Command,
    Minimum,
    Save,
}

// The number of the log that a line sets by hand.
#[derive(Clone, Copy, Debug, PartialEq, Eq)]
pub enum Setting {
    Start,
    Used,
    First,
    Next,
    Clear,
    Position,
    Offset,
    Console,
    Minimum,
    Saved,
    Unsaved,
}

#[derive(Clone, Copy, Debug, PartialEq, Eq)]
pub enum OnReader {
    Set,
    Where,
    Read,
    Seek,
}

#[derive(Clone, Copy, Debug, PartialEq, Eq)]
pub enum OnBoard {
    Deliver,
    Slot,
}

#[derive(Clone, Copy, Debug, PartialEq, Eq)]
pub enum OnJoiner {
    Join,
    Close,
    Open,
}

#[derive(Clone, Copy, Debug, PartialEq, Eq)]
pub enum OnDisk {
    Cut,
    Patch,
    Trail,
    Next,
}

// A call, its words, and the forms of its answer.
pub type Row = (Call, &'static [u8], &'static [u8]);

#[rattlefmt::skip]
pub const ROWS: [Row; 43] = [
    (Call::Log, b"log #70000 #255", b"log"),
    (Call::OnLog(OnLog::Check), b"check", b"fine|numbers|heading n"),
    (Call::OnLog(OnLog::Numbers), b"numbers", b"n n n n n n n n n n|n n n n n n n n n -"),
    (Call::OnLog(OnLog::Peek), b"peek # #", b"h"),
    (Call::OnLog(OnLog::Poke), b"poke # $", b"poked"),
    (Call::OnLog(OnLog::Set(Setting::Start)), b"number start #", b"set"),
    (Call::OnLog(OnLog::Set(Setting::Used)), b"number used #", b"set"),
    (Call::OnLog(OnLog::Set(Setting::First)), b"number first #", b"set"),
    (Call::OnLog(OnLog::Set(Setting::Next)), b"number next #", b"set"),
    (Call::OnLog(OnLog::Set(Setting::Clear)), b"number clear #", b"set"),
    (Call::OnLog(OnLog::Set(Setting::Position)), b"number position #", b"set"),
    (Call::OnLog(OnLog::Set(Setting::Offset)), b"number offset #", b"set"),
    (Call::OnLog(OnLog::Set(Setting::Console)), b"number console #", b"set"),
    (Call::OnLog(OnLog::Set(Setting::Minimum)), b"number minimum #", b"set"),
    (Call::OnLog(OnLog::Set(Setting::Saved)), b"number saved #", b"set"),
    (Call::OnLog(OnLog::Set(Setting::Unsaved)), b"number saved -", b"set"),
    (Call::OnLog(OnLog::Outside), b"outside # $", b"i n"),
    (Call::OnLog(OnLog::Outside), b"outside # $ #4294967295", b"i n"),
    (Call::OnLog(OnLog::Box), b"box ~ ~ # $ $", b"i n"),
    (Call::OnLog(OnLog::Box), b"box ~ ~ # $ $ #1", b"i n"),
    (Call::OnLog(OnLog::Box), b"box ~ ~ # $ $ #1 #4294967295", b"i n"),
    (Call::OnLog(OnLog::Reader), b"reader", b"reader n"),
    (Call::OnLog(OnLog::OnReader(OnReader::Set)), b"at # #", b"set"),
    (Call::OnLog(OnLog::OnReader(OnReader::Where)), b"where #", b"n"),
    (Call::OnLog(OnLog::OnReader(OnReader::Read)), b"read # @5000", b"i n h"),
    (Call::OnLog(OnLog::OnReader(OnReader::Seek)), b"seek # ~9223372036854775807 ~2147483647", b"i"),
    (Call::OnLog(OnLog::Command), b"command ~2147483647 ~2147483647 #1 #1 @300000", b"i h"),
    (Call::OnLog(OnLog::Minimum), b"minimum ~9223372036854775807", b"i"),
    (Call::Board, b"board #255", b"board"),
    (Call::OnBoard(OnBoard::Deliver), b"deliver $", b"n"),
    (Call::OnBoard(OnBoard::Slot), b"slot #23", b"nothing n|n n h"),
    (Call::Joiner, b"joiner #255", b"joiner"),
    (Call::OnJoiner(OnJoiner::Join), b"join $", b"n|n n h|n n h n m"),
    (Call::OnJoiner(OnJoiner::Close), b"close", b"none|n h"),
    (Call::OnJoiner(OnJoiner::Open), b"open #23", b"shut|open h"),
    (Call::Line, b"line $", b"n|n n n n n h m"),
    (Call::Console, b"console ~9223372036854775807 ~9223372036854775807", b"yes|no"),
    (Call::OnLog(OnLog::Save), b"save #4294967295 @90000", b"i h"),
    (Call::Disk, b"disk #90000 #255", b"disk"),
    (Call::OnDisk(OnDisk::Cut), b"cut #", b"cut n"),
    (Call::OnDisk(OnDisk::Patch), b"patch # $", b"patched"),
    (Call::OnDisk(OnDisk::Trail), b"trail", b"trail"),
    (
        Call::OnDisk(OnDisk::Next),
        b"next @5000",
        b"record n n n n h m n n|end|stop number n|stop save n|stop edition n|stop count n|stop check n|stop record n|stop unfinished n|room",
    ),
];

// A line fits a row where it has as many words and each fits. A word that the row doesn't have counts as 0.
fn read_by(row: &Row, line: &[u8], bytes: &mut Bytes) -> Option<Words> {
    let (call, wanted, forms) = *row;
    let mut values = [Value::Number(0); words::MOST];
    let mut used = 0;
    let mut lent = 0;
    let mut said = line.split(|b| *b == b' ');
    for (value, wanted) in values.iter_mut().zip(wanted.split(|b| *b == b' ')) {
        *value = words::read(wanted, said.next()?, used, bytes)?;
        match *value {
            Value::Bytes { to, .. } => used = to,
            Value::Length(n) => lent = n,
            Value::Number(_) => {}
        }
    }
    match said.next() {
        None => Some(Words {
            call,
            forms,
            lent,
            values,
        }),
        Some(_) => None,
    }
}

// A line read by the first row that it fits.
pub fn read(line: &[u8], bytes: &mut Bytes) -> Option<Words> {
    for row in &ROWS {
        let words = read_by(row, line, bytes);
        if words.is_some() {
            return words;
        }
    }
    None
}
