// The saved trails of a rehearsal: the image that a save left, the file that it is cut into, and the reader of that file.
use crate::state;
use crate::state::{File, Image, State};
use eventlog::Log;
use image::{Ending, Fault};
use record::Heading;
use savedtrail::Reader;
use script::answers::Told;
use script::vocabulary::OnDisk;
use script::words::{Bytes, Words};
use script::{decimals, lent};

const BLOCK: usize = 512;

// What a good save wrote is the image; a refused one leaves the old.
pub fn save(log: &Log, words: &Words, ring: &[u8], image: &mut Image, space: &mut [u8]) -> Told {
    let lent = lent::first(space, words.lent);
    let answer = savedtrail::save(*log, ring, decimals::word(words.number(1)), lent);
    let length = state::counted(answer);
    if answer.is_ok() {
        slices::copy(slices::front(lent, length), &mut image.bytes, 0);
        image.length = Some(length);
    }
    state::answered(answer).with_bytes(length)
}

// ---- the file

// A fresh file, without a reader.
pub fn fresh(state: &mut State, words: &Words) -> Told {
    state.disk.fill(decimals::byte(words.number(2)));
    state.file = Some(File {
        length: words.number(1) as usize,
        trail: None,
    });
    Told::form(0)
}

// How many bytes so many blocks of an image have; all of it, where it has fewer.
fn cut_length(blocks: u64, image: usize) -> usize {
    let whole = image / BLOCK;
    if blocks < whole as u64 {
        BLOCK * blocks as usize
    } else {
        image
    }
}

// The first blocks of the image over the file: a short one grows, and its reader goes.
fn cut(file: &mut File, words: &Words, image: &Image, disk: &mut [u8]) -> Option<Told> {
    let written = cut_length(words.number(1), image.length?);
    slices::copy(slices::front(&image.bytes, written), disk, 0);
    *file = File {
        length: file.length.max(written),
        trail: None,
    };
    Some(Told::number(file.length as u64))
}

// Bytes put into the file, as far as it reaches.
fn patch(file: &File, words: &Words, bytes: &Bytes, disk: &mut [u8]) -> Told {
    let place = words.number(1) as usize;
    lent::put(words.bytes(2, bytes), lent::first(disk, file.length), place);
    Told::form(0)
}

// ---- the reader

// A record: its numbers, and the trail's edition; text, and behind it dictionary.
fn record_told(h: Heading, edition: u16) -> Told {
    let mut told = Told::number(h.sequence);
    told.numbers[1] = h.time;
    told.numbers[2] = u64::from(h.prefix);
    told.numbers[3] = u64::from(h.flag);
    told.numbers[4] = u64::from(h.caller);
    told.numbers[5] = u64::from(edition);
    told.to = usize::from(h.text);
    told.more = usize::from(h.text) + usize::from(h.dictionary);
    told
}

// A stop's form, and the place that it tells.
fn stopped(meant: usize, place: usize) -> Told {
    Told::number(place as u64).meaning(meant)
}

// The place of a fault's form in the list of its row, `next`: a place, as the vocabulary's forms have no names.
fn fault_form(fault: Fault) -> usize {
    match fault {
        Fault::Number => 2,
        Fault::Save => 3,
        Fault::Edition => 4,
        Fault::Count => 5,
        Fault::Check => 6,
    }
}

fn ending_told(ending: Ending) -> Told {
    match ending {
        Ending::Ended => Told::form(1),
        Ending::BadBlock(fault, place) => stopped(fault_form(fault), place),
        Ending::BadRecord(place) => stopped(7, place),
        Ending::Unfinished(place) => stopped(8, place),
    }
}

// What the reader of the file, if it was made, hands next.
fn next(file: &mut File, words: &Words, disk: &[u8], space: &mut [u8]) -> Option<Told> {
    let reader = file.trail.as_mut()?;
    let lent = lent::first(space, words.lent);
    let handed = savedtrail::next(*reader, slices::front(disk, file.length), lent);
    *reader = handed.reader;
    match handed.told {
        savedtrail::Told::Given(h, edition) => Some(record_told(h, edition)),
        savedtrail::Told::Over(ending) => Some(ending_told(ending)),
        savedtrail::Told::Room => Some(Told::form(9)),
    }
}

pub fn call(state: &mut State, call: OnDisk, words: &Words) -> Option<Told> {
    let file = state.file.as_mut()?;
    match call {
        OnDisk::Cut => cut(file, words, &state.image, &mut state.disk),
        OnDisk::Patch => Some(patch(file, words, &state.bytes, &mut state.disk)),
        OnDisk::Trail => {
            file.trail = Some(Reader::new());
            Some(Told::form(0))
        }
        OnDisk::Next => next(file, words, &state.disk, &mut state.space),
    }
}
