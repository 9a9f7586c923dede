// The script's readers. The log's buffer is lent to these as one that none of them can change.
use crate::state;
use crate::state::Made;
use eventlog::Log;
use kmsg::Reader;
use record::Seq;
use script::answers::Told;
use script::vocabulary::OnReader;
use script::words::Words;
use script::{decimals, lent};

// A new reader, as long as there is a place for one.
pub fn make(made: &mut Made) -> Option<Told> {
    let k = made.readers.iter().position(|r| r.is_none())?;
    made.readers[k] = Some(Reader::new(made.log));
    Some(Told::number(k as u64))
}

fn read(reader: &mut Reader, log: Log, words: &Words, ring: &[u8], space: &mut [u8]) -> Told {
    let lent = lent::first(space, words.lent);
    let given = kmsg::read(*reader, log, ring, lent);
    *reader = given.reader;
    let mut told = state::answered(given.answer).with_bytes(state::counted(given.answer));
    told.numbers[0] = given.lost;
    told
}

fn seek(reader: &mut Reader, log: Log, words: &Words, ring: &[u8]) -> Told {
    let whence = decimals::narrow(words.signed(3));
    let sought = kmsg::seek(*reader, log, ring, words.signed(2), whence);
    *reader = sought.reader;
    state::answered(sought.answer)
}

// A call on a reader that was made. The row says which of its numbers is set by hand.
pub fn call(
    made: &mut Made,
    call: OnReader,
    words: &Words,
    ring: &[u8],
    space: &mut [u8],
) -> Option<Told> {
    let log = made.log;
    let reader = made.readers.get_mut(words.number(1) as usize)?.as_mut()?;
    match call {
        OnReader::Set => {
            reader.next = Seq(words.number(2));
            Some(Told::form(0))
        }
        OnReader::Where => Some(Told::number(reader.next.0)),
        OnReader::Read => Some(read(reader, log, words, ring, space)),
        OnReader::Seek => Some(seek(reader, log, words, ring)),
    }
}
