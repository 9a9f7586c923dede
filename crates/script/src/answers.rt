// An answer written out: what a call told, in the form that the vocabulary gives it.
use crate::words::Words;
use crate::{hex, lent};
use std::io;

// What a call tells: which form of its answer is meant, a place in its row's list of forms (an enum of the forms would say the vocabulary a second time);
// the answer that may be negative; its numbers, in the form's order; where its bytes end in the space, which are those of the lent buffer that it counts,
// and where more bytes end behind them; and whether every other byte stayed that should have.
#[derive(Clone, Copy)]
pub struct Told {
    pub meant: usize,
    pub answer: i64,
    pub numbers: [u64; 10],
    pub to: usize,
    pub more: usize,
    pub stayed: bool,
}

impl Told {
    // A form with nothing to tell.
    pub fn form(meant: usize) -> Self {
        Told {
            meant,
            answer: 0,
            numbers: [0; 10],
            to: 0,
            more: 0,
            stayed: true,
        }
    }

    // One number.
    pub fn number(n: u64) -> Self {
        let mut told = Told::form(0);
        told.numbers[0] = n;
        told
    }

    // One number that may be negative.
    pub fn signed(n: i64) -> Self {
        Told {
            answer: n,
            ..Told::form(0)
        }
    }

    // In another form than the first. This and the next two set a field each, by names that the callers chain.
    pub fn meaning(self, meant: usize) -> Self {
        Told { meant, ..self }
    }

    // The first bytes of the space.
    pub fn with_bytes(self, count: usize) -> Self {
        Told { to: count, ..self }
    }

    pub fn marked(self, stayed: bool) -> Self {
        Told { stayed, ..self }
    }
}

// The words of a form, one after the other: numbers, bytes and names.
fn print_form(rt: &impl Print, form: &[u8], told: Told, space: &[u8]) -> io::Result<()> {
    let mut numbers = told.numbers.iter();
    for (k, word) in form.split(|b| *b == b' ').enumerate() {
        if k > 0 {
            print!(rt; " ")?;
        }
        match word {
            b"n" => rt.print(numbers.next().copied().unwrap_or(0))?,
            b"i" => rt.print(told.answer)?,
            b"h" => hex::print(rt, slices::front(space, told.to))?,
            b"m" => hex::print(rt, lent::between(space, told.to, told.more))?,
            name => rt.write_all(name)?,
        }
    }
    Ok(())
}

// Of the lent buffer every byte behind those that the answer counts is as it was before the call, and so is every other that should be.
fn stayed(words: &Words, told: Told, space: &[u8]) -> bool {
    let counted = told.to.max(told.more);
    told.stayed & lent::stayed(lent::between(space, counted, words.lent), 0)
}

// Writes the answer; `?` for a line that is no call. A byte that did not stay is marked before its newline.
pub fn print(rt: &impl Print, words: &Words, told: Option<Told>, space: &[u8]) -> io::Result<()> {
    let Some(told) = told else {
        return unknown(rt);
    };
    let form = words.forms.split(|b| *b == b'|').nth(told.meant);
    print_form(rt, form.unwrap_or(&[]), told, space)?;
    if stayed(words, told, space) {
        println!(rt)
    } else {
        println!(rt; " CHANGED")
    }
}

pub fn unknown(rt: &impl Print) -> io::Result<()> {
    println!(rt; "?")
}
