// A ring of seven bytes: three bytes put and read at every place of it, behind every number of used ones.
ghost use Rattle.std.specs.Prelude.{◌<◌, ◌≤◌};
ghost use Rattle.ring.specs.Ring.{Within};

use ring::{Place, Used};
use std::io;

// The used bytes, one after the other.
fn straight(rt: &impl Print, buffer: &[u8], start: usize, bytes: usize) -> io::Result<()>
    requires { Within buffer.now start bytes }
{
    let used = Used {
        buffer,
        start: Place(start),
        bytes,
    };
    for i in 0..bytes {
        rt.write_all(&[used.byte(i)])?;
    }
    Ok(())
}

fn put(rt: &impl Print, start: usize, used: usize) -> io::Result<()>
    requires { (start < 7) × (used ≤ 7) }
{
    let mut buffer = *b"abcdefg";
    print!(rt; "ring {start} {used}: ")?;
    match ring::ring_put(&mut buffer, Place(start), used, b"XYZ") {
        Some(n) => {
            rt.write_all(&buffer)?;
            if n <= 7 {
                print!(rt; " ")?;
                straight(rt, &buffer, start, n)?;
            }
            println!(rt)
        }
        None => println!(rt; "no room"),
    }
}

fn from(rt: &impl Print, start: usize) -> io::Result<()>
    requires { start < 7 }
{
    for used in 0..=7 {
        put(rt, start, used)?;
    }
    Ok(())
}

pub fn all(rt: &impl Print) -> io::Result<()> {
    for start in 0..7 {
        from(rt, start)?;
    }
    Ok(())
}
