// The joiner: "texts buffer not 7,680, an open length over 960, either result under 960"; a close has one result.
use crate::say;
use joiner::{Joiner, Slot};
use record::Seq;
use std::io;

// A joiner that took number 9, and whose facility 23 has a text of this length open.
fn holding(size: usize) -> Joiner {
    let mut joiner = Joiner::new();
    joiner.slots[7] = Slot { text: Some(size) };
    joiner.last = Some(Seq(9));
    joiner
}

// Number 9 is the last one still, and facility 23's text as long as it was.
fn kept(joiner: Joiner, size: usize) -> bool {
    (joiner.last == Some(Seq(9))) & (joiner.slots[7].text == Some(size))
}

// Number 10, which stands alone, for facility 16. The size is an open text's; the buffers are lent apart, as the joiner takes them.
fn join(
    rt: &impl Print,
    texts: &mut [u8],
    size: usize,
    first: &mut [u8],
    second: &mut [u8],
) -> io::Result<()> {
    print!(rt; "joiner, texts {}, text length {size}", texts.len())?;
    print!(rt; ", results {} and {}", first.len(), second.len())?;
    let told = joiner::join(holding(size), texts, b"134,10,1,-;1-0\n", first, second);
    let lent = say::stayed(texts) & say::stayed(first) & say::stayed(second);
    say::answer(rt, say::number(told.answer), lent & kept(told.joiner, size))
}

// Not one function with `join`: a close is lent no message and has one result.
fn close(rt: &impl Print, texts: &[u8], size: usize, res: &mut [u8]) -> io::Result<()> {
    print!(rt;
        "closing, texts {}, text length {size}, result {}",
        texts.len(),
        res.len()
    )?;
    let told = joiner::close(holding(size), texts, res);
    let lent = say::stayed(texts) & say::stayed(res);
    say::answer(rt, say::number(told.answer), lent & kept(told.joiner, size))
}

// Arrays of other sizes are other types, so no `for` goes over them.
pub fn all(rt: &impl Print) -> io::Result<()> {
    join(rt, &mut [165; 7680], 960, &mut [165; 960], &mut [165; 960])?;
    join(rt, &mut [165; 7679], 960, &mut [165; 960], &mut [165; 960])?;
    join(rt, &mut [165; 7681], 960, &mut [165; 960], &mut [165; 960])?;
    join(rt, &mut [165; 7680], 961, &mut [165; 960], &mut [165; 960])?;
    join(rt, &mut [165; 7680], 960, &mut [165; 959], &mut [165; 960])?;
    join(rt, &mut [165; 7680], 960, &mut [165; 960], &mut [165; 959])?;
    close(rt, &[165; 7680], 960, &mut [165; 960])?;
    close(rt, &[165; 7679], 960, &mut [165; 960])?;
    close(rt, &[165; 7681], 960, &mut [165; 960])?;
    close(rt, &[165; 7680], 961, &mut [165; 960])?;
    close(rt, &[165; 7680], 960, &mut [165; 959])
}
