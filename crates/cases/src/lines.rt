// The line reader: "result buffer under 960 bytes, numbers block not 48".
use crate::say;
use std::io;

// T14's message, read into what is lent.
fn read(rt: &impl Print, res: &mut [u8], numbers: &mut [u8]) -> io::Result<()> {
    print!(rt;
        "line reader, result {}, numbers {}",
        res.len(),
        numbers.len()
    )?;
    let answer = message::read_line(b"134,7,1,-;1-0\n", res, numbers);
    say::answer(rt, answer, say::stayed(res) & say::stayed(numbers))
}

// Arrays of other sizes are other types, so no `for` goes over them.
pub fn all(rt: &impl Print) -> io::Result<()> {
    read(rt, &mut [165; 960], &mut [165; 48])?;
    read(rt, &mut [165; 959], &mut [165; 48])?;
    read(rt, &mut [165; 960], &mut [165; 47])?;
    read(rt, &mut [165; 960], &mut [165; 49])
}
