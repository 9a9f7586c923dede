// The log of a rehearsal, and the script's calls on the log itself.
use crate::state::{Made, State};
use eventlog::{Log, Misfit};
use record::Seq;
use ring::Place;
use script::answers::Told;
use script::vocabulary::Setting;
use script::words::{Bytes, Words};
use script::{decimals, lent};

// A fresh log, without readers.
pub fn fresh(state: &mut State, words: &Words) -> Told {
    state.ring.fill(decimals::byte(words.number(2)));
    state.log = Some(Made {
        log: Log::new(),
        capacity: words.number(1) as usize,
        readers: [None; 16],
    });
    Told::form(0)
}

// The log with one of its numbers set by hand.
pub fn set(log: &mut Log, setting: Setting, n: u64) -> Told {
    match setting {
        Setting::Start => log.start = Place(n as usize),
        Setting::Used => log.used = n as usize,
        Setting::First => log.first = Seq(n),
        Setting::Next => log.next = Seq(n),
        Setting::Clear => log.clear = Seq(n),
        Setting::Position => log.position = Seq(n),
        Setting::Offset => log.offset = n as usize,
        Setting::Console => log.console.level = n,
        Setting::Minimum => log.console.minimum = n,
        Setting::Saved => log.console.saved = Some(n),
        Setting::Unsaved => log.console.saved = None,
    }
    Told::form(0)
}

// What the log check tells.
pub fn check(log: &Log, ring: &[u8]) -> Told {
    match eventlog::check(*log, ring) {
        Ok(()) => Told::form(0),
        Err(Misfit::Numbers) => Told::form(1),
        Err(Misfit::Heading(k)) => Told::number(k).meaning(2),
    }
}

// The log's numbers: the saved level is the last, or there is none.
pub fn numbers(log: &Log) -> Told {
    let console = log.console;
    let numbers = [
        log.start.0 as u64,
        log.used as u64,
        log.first.0,
        log.next.0,
        log.clear.0,
        log.position.0,
        log.offset as u64,
        console.level,
        console.minimum,
        console.saved.unwrap_or(0),
    ];
    let meant = if console.saved.is_some() { 0 } else { 1 };
    Told {
        numbers,
        ..Told::form(meant)
    }
}

// Bytes of the log's buffer, as far as it reaches.
pub fn peek(words: &Words, ring: &[u8], space: &mut [u8]) -> Told {
    let part = lent::part(ring, words.number(1) as usize, words.number(2) as usize);
    slices::copy(part, space, 0);
    Told::form(0).with_bytes(part.len())
}

// Bytes put into the log's buffer, as far as it reaches.
pub fn poke(words: &Words, bytes: &Bytes, ring: &mut [u8]) -> Told {
    lent::put(words.bytes(2, bytes), ring, words.number(1) as usize);
    Told::form(0)
}
