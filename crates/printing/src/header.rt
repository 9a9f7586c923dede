// The header of a line, as a whole line without text: put by `line` if there is room for it.
use line::Parts;
use record::Heading;

// Puts a header at a place, and answers the place behind it.
pub fn header(
    prefix: u64,
    sequence: u64,
    time: u64,
    caller: u64,
    out: &mut [u8],
    at: usize,
) -> usize {
    let Some(room) = out.get_mut(at..) else {
        return at;
    };
    let h = Heading {
        time,
        sequence,
        text: 0,
        dictionary: 0,
        prefix: (prefix % 2048) as u16,
        flag: Heading::PLAIN,
        zero: 0,
        caller: (caller % 4294967296) as u32,
        reserved: 0,
    };
    let parts = Parts {
        text: b"",
        more: b"",
        dictionary: b"",
        others: b"",
    };
    line::place_line(h, parts, room).map_or(at, |bytes| at.wrapping_add(bytes))
}
