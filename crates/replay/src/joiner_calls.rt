// The joiner of a rehearsal, and the script's calls on it.
use crate::state;
use crate::state::State;
use joiner::{Answer, Joiner, Text, Texts};
use script::answers::Told;
use script::vocabulary::OnJoiner;
use script::words::{Bytes, Words};
use script::{decimals, lent};

// A fresh joiner.
pub fn fresh(state: &mut State, words: &Words) -> Told {
    state.texts.fill(decimals::byte(words.number(1)));
    state.joiner = Some(Joiner::new());
    Told::form(0)
}

// ---- what a message may change

// Bytes of the texts' buffer, which is lent elsewhere: so many from a place on.
#[derive(Clone, Copy)]
struct Stretch {
    from: usize,
    size: usize,
}

const NOTHING: Stretch = Stretch { from: 0, size: 0 };

// The bytes of the text that is open at a place; none, where none is open.
fn length_at(joiner: &Joiner, k: usize) -> usize {
    joiner.slots.get(k).and_then(|slot| slot.text).unwrap_or(0)
}

// Of a place's text all bytes behind the first so many.
fn behind(joiner: &Joiner, k: usize, kept: usize) -> Stretch {
    Stretch {
        from: k.wrapping_mul(Joiner::TEXT).wrapping_add(kept),
        size: length_at(joiner, k).saturating_sub(kept),
    }
}

// A message that gives no text is put behind the open text of its place, which is then longer.
fn lengthened(was: &Joiner, joiner: &Joiner) -> Stretch {
    for k in 0..channel::CHANNELS {
        let kept = length_at(was, k);
        if length_at(joiner, k) != kept {
            return behind(joiner, k, kept);
        }
    }
    NOTHING
}

// One that closes a text, and doesn't stand alone, opens a new one in its place.
fn changed(was: &Joiner, joiner: &Joiner, answer: Answer) -> Stretch {
    match answer {
        Ok(Texts::Nothing) => lengthened(was, joiner),
        Ok(Texts::One(text)) => match state::place_of(text.facility) {
            Some(k) => behind(joiner, k, 0),
            None => NOTHING,
        },
        Ok(Texts::Two(_, _)) | Err(_) => NOTHING,
    }
}

// ---- what is told of the results

// The results and the space are lent as they are to the call: a struct of the three would be built once and taken apart in each of these.

// The first result's text in the space, and the second's behind it.
fn two_told(a: Text, b: Text, first: &[u8], second: &[u8], space: &mut [u8]) -> Told {
    let one = lent::part(first, 0, a.size);
    let other = lent::part(second, 0, b.size);
    slices::copy(one, space, 0);
    lent::put(other, space, one.len());
    let mut told = Told::form(2).with_bytes(one.len());
    told.numbers[1] = a.facility;
    told.numbers[2] = b.facility;
    told.more = one.len().wrapping_add(other.len());
    told.marked(lent::stayed(first, a.size) & lent::stayed(second, b.size))
}

fn one_told(a: Text, first: &[u8], second: &[u8], space: &mut [u8]) -> Told {
    let text = lent::part(first, 0, a.size);
    slices::copy(text, space, 0);
    let mut told = Told::form(1).with_bytes(text.len());
    told.numbers[1] = a.facility;
    told.marked(lent::stayed(first, a.size) & lent::stayed(second, 0))
}

fn none_told(number: u32, first: &[u8], second: &[u8]) -> Told {
    Told::number(u64::from(number)).marked(lent::stayed(first, 0) & lent::stayed(second, 0))
}

fn joined_told(answer: Answer, first: &[u8], second: &[u8], space: &mut [u8]) -> Told {
    match answer {
        Ok(Texts::Nothing) => none_told(0, first, second),
        Ok(Texts::One(a)) => one_told(a, first, second, space),
        Ok(Texts::Two(a, b)) => two_told(a, b, first, second, space),
        Err(why) => none_told(u32::from(why), first, second),
    }
}

// What a message leaves, and tells. The space holds the texts' bytes from before it, and then what is told.
fn join(
    joiner: &mut Joiner,
    words: &Words,
    bytes: &Bytes,
    texts: &mut [u8],
    space: &mut [u8],
) -> Told {
    let mut first = [lent::FILL; Joiner::TEXT];
    let mut second = [lent::FILL; Joiner::TEXT];
    slices::copy(texts, space, 0);
    let joined = joiner::join(
        *joiner,
        texts,
        words.bytes(1, bytes),
        &mut first,
        &mut second,
    );
    let stretch = changed(joiner, &joined.joiner, joined.answer);
    let stayed = lent::stayed_around(space, texts, stretch.from, stretch.size);
    *joiner = joined.joiner;
    let told = joined_told(joined.answer, &first, &second, space);
    told.marked(told.stayed & stayed)
}

// ---- closing, and what is open

// A close gives one text or none, and with room it refuses nothing.
fn close(joiner: &mut Joiner, texts: &[u8], space: &mut [u8]) -> Told {
    let mut result = [lent::FILL; Joiner::TEXT];
    let closed = joiner::close(*joiner, texts, &mut result);
    *joiner = closed.joiner;
    let Ok(Texts::One(a)) = closed.answer else {
        return Told::form(0).marked(lent::stayed(&result, 0));
    };
    let text = lent::part(&result, 0, a.size);
    slices::copy(text, space, 0);
    let told = Told::number(a.facility).meaning(1).with_bytes(text.len());
    told.marked(lent::stayed(&result, a.size))
}

// The text that is open for a facility, if it has a channel.
fn open(joiner: &Joiner, words: &Words, texts: &[u8], space: &mut [u8]) -> Option<Told> {
    let k = state::place_of(words.number(1))?;
    let Some(n) = joiner.slots[k].text else {
        return Some(Told::form(0));
    };
    let text = lent::part(texts, k * Joiner::TEXT, n);
    slices::copy(text, space, 0);
    Some(Told::form(1).with_bytes(text.len()))
}

pub fn call(state: &mut State, call: OnJoiner, words: &Words) -> Option<Told> {
    let joiner = state.joiner.as_mut()?;
    match call {
        OnJoiner::Join => Some(join(
            joiner,
            words,
            &state.bytes,
            &mut state.texts,
            &mut state.space,
        )),
        OnJoiner::Close => Some(close(joiner, &state.texts, &mut state.space)),
        OnJoiner::Open => open(joiner, words, &state.texts, &mut state.space),
    }
}
