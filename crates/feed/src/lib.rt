// A feed of messages: grouped, delivered to a board, and printed. The receiver program is one call of it.
#![tactic(auto)]

ghost use Rattle.std.specs.Prelude.{◌≡◌, ◌+◌, ◌*◌, ◌≤◌, ◌<◌, length, take, drop};
ghost use Rattle.std.specs.Iterator.{YieldsFirstBy, item_count};
ghost use Rattle.slices.specs.Put.{left, placed};
ghost use Rattle.escape.specs.Answers.{Written};
ghost use Rattle.board.specs.Board.{channels, slot_size, fresh, state};
ghost use Rattle.feed.specs.Feed.{messages, message_length, fed, feed_all, channel_lines, report, output, buffer_after};
ghost use Rattle.feed.specs.Printing.{measured, field, shown_line, refused_line};
ghost use Rattle.feed.specs.Kept.{restored, settled};

use board::{Board, Slot};
use record::Seq;

// The channel of the first slot.
const FIRST: usize = Board::FIRST as usize;

// A board that was fed, and how many messages it refused.
#[derive(Clone, Copy)]
pub struct Received {
    pub board: Board,
    pub refused: u64,
}

impl Received {
    // The longest input of the receiver program.
    pub const INPUT: usize = 65536;
    // Bytes that have room for any report: a line of 2 digits, a space, 20 digits, a space, a full slot with every byte escaped
    // and a newline for each channel, and the last line's 8 bytes, 20 digits and a newline.
    pub const REPORT: usize = Board::SLOTS * (2 + 1 + 20 + 1 + 4 * Board::TEXT + 1) + 8 + 20 + 1;
}

// The length of the first message of a feed: 0 of an empty one. A line that begins with a space goes on with the message before it.
pub fn message_length(s: &[u8]) -> usize
    ensures { result ≡ message_length s.now }
{
    for i in 1..s.len() {
        if (s[i - 1] == b'\n') & (s[i] != b' ') {
            return i;
        }
    }
    s.len()
}

// The messages of a feed, in their order.
#[derive(Clone, Copy)]
pub struct Messages<'a>(pub &'a [u8]);

impl<'a> Iterator for Messages<'a> {
    type Item = &'a [u8];

    ghost next_gives = { YieldsFirstBy (λ m. m.now) (λ s. messages s.0.now) };

    ghost remaining = { item_count (λ s. messages s.0.now) };

    fn next(&mut self) -> Option<&'a [u8]> {
        if self.0.is_empty() {
            return None;
        }
        let (first, others) = self.0.split_at(message_length(self.0));
        self.0 = others;
        Some(first)
    }
}

// All messages of a feed, delivered to a fresh board over this buffer.
pub fn receive(input: &[u8], buffer: &mut [u8]) -> Received
    ensures { fed (state result.board.slots buffer.new) result.refused ≡ feed_all (fresh buffer.old) 0 (messages input.now) }
{
    let mut board = Board::new();
    let mut refused: u64 = 0;
    for message in Messages(input) {
        let told = board::deliver(board, buffer, message);
        board = told.board;
        refused += u64::from(told.answer.is_err());
    }
    Received { board, refused }
}

// What a slot shows of the board's buffer, which may be of any length.
fn slot_text(buffer: &[u8], i: usize, size: usize) -> &[u8]
    requires { i < channels }
    ensures { result.now ≡ take size (drop (i * slot_size) buffer.now) }
{
    let slot = buffer.get(i * Board::TEXT..).unwrap_or(&[]);
    slot.get(..size).unwrap_or(slot)
}

// How many bytes a channel's line has, if no more than `most`.
fn line_length(channel: usize, shown: Option<Seq>, text: &[u8], most: usize) -> Option<usize>
    ensures { result ≡ measured most (shown_line channel shown text.now) }
{
    let Some(number) = shown else {
        return Some(0);
    };
    let numbers = number::decimal_length(channel as u64) + number::decimal_length(number.0) + 3;
    let escaped = escape::kmsg_length(text, most.checked_sub(numbers)?)?;
    Some(numbers + escaped)
}

// How many bytes the lines of all channels have, if no more than `most`.
fn lines_length(slots: [Slot; Board::SLOTS], buffer: &[u8], most: usize) -> Option<usize>
    ensures { result ≡ measured most (channel_lines (state slots buffer.now) 0 channels) }
{
    let mut room = most;
    for (i, slot) in slots.iter().enumerate() {
        let text = slot_text(buffer, i, slot.size);
        room -= line_length(FIRST + i, slot.shown, text, room)?;
    }
    Some(most - room)
}

// A number and a byte behind it, put at a place where there is room for them; the place behind them. A lent buffer and a place
// in it stand for a Vec here and below: there is no heap.
pub fn write_field(number: u64, end: u8, out: &mut [u8], at: usize) -> usize
    requires { at + length (field number end) ≤ length out.old }
    ensures { Written out.old at (field number end) result out.new }
{
    let k = number::print_decimal(number, out, at).unwrap();
    out[k] = end;
    k + 1
}

// A channel's line, put at a place where there is room for it; the place behind it.
fn write_line(channel: usize, shown: Option<Seq>, text: &[u8], out: &mut [u8], at: usize) -> usize
    requires { at + length (shown_line channel shown text.now) ≤ length out.old }
    ensures { Written out.old at (shown_line channel shown text.now) result out.new }
{
    let Some(number) = shown else {
        return at;
    };
    let second = write_field(channel as u64, b' ', out, at);
    let third = write_field(number.0, b' ', out, second);
    let end = escape::write_escaped(text, out, third);
    out[end] = b'\n';
    end + 1
}

// The lines of all channels, upward, put in front of a buffer that has room for them; the place behind them.
fn write_lines(slots: [Slot; Board::SLOTS], buffer: &[u8], out: &mut [u8]) -> usize
    requires { length (channel_lines (state slots buffer.now) 0 channels) ≤ length out.old }
    ensures { Written out.old 0 (channel_lines (state slots buffer.now) 0 channels) result out.new }
{
    let mut at = 0;
    for (i, slot) in slots.iter().enumerate() {
        let text = slot_text(buffer, i, slot.size);
        at = write_line(FIRST + i, slot.shown, text, out, at);
    }
    at
}

// How many messages were refused, put at a place where there is room for that line; the place behind it.
pub fn write_refused(refused: u64, out: &mut [u8], at: usize) -> usize
    requires { at + length (refused_line refused) ≤ length out.old }
    ensures { Written out.old at (refused_line refused) result out.new }
{
    let k = slices::copy(b"refused ", out, at).unwrap();
    write_field(refused, b'\n', out, k)
}

// What a board shows and how many messages were refused, put into a buffer if there is room: measured before a byte is written.
pub fn print(board: Board, buffer: &[u8], refused: u64, out: &mut [u8]) -> Option<usize>
    ensures { left result out.new ≡ placed out.old 0 (report (fed (state board.slots buffer.now) refused)) }
{
    let last = number::decimal_length(refused) + 9;
    lines_length(board.slots, buffer, out.len().checked_sub(last)?)?;
    let at = write_lines(board.slots, buffer, out);
    Some(write_refused(refused, out, at))
}

// The kept bytes, put back into the board's buffer. A buffer of another length was never written.
fn restore(kept: &[u8], buffer: &mut [u8])
    ensures { buffer.new ≡ restored kept.now buffer.old }
{
    if buffer.len() == kept.len() {
        buffer.copy_from_slice(kept);
    }
}

// The report of a feed, put into a buffer; or, without room for it, the board's buffer as it was kept.
fn print_or_restore(r: Received, kept: &[u8], buffer: &mut [u8], out: &mut [u8]) -> Option<usize>
    ensures out_after { left result out.new ≡ placed out.old 0 (report (fed (state r.board.slots buffer.old) r.refused)) }
    ensures buffer_after { buffer.new ≡ settled kept.now (fed (state r.board.slots buffer.old) r.refused) (length out.old) }
{
    let end = print(r.board, buffer, r.refused, out);
    if end.is_none() {
        restore(kept, buffer);
    }
    end
}

// The receiver program: what is written for this input, put into a buffer if there is room. Without room all is as it was: for
// that the board's buffer, 7,680 bytes, is kept on the stack while it is fed.
pub fn run(input: &[u8], buffer: &mut [u8], out: &mut [u8]) -> Option<usize>
    ensures out_after { left result out.new ≡ placed out.old 0 (output buffer.old input.now) }
    ensures buffer_after { buffer.new ≡ buffer_after buffer.old input.now (length out.old) }
{
    if Received::INPUT < input.len() {
        return slices::copy(b"input too long\n", out, 0);
    }
    let mut kept = [0u8; Board::BUFFER];
    slices::copy(buffer, &mut kept, 0);
    let r = receive(input, buffer);
    print_or_restore(r, &kept, buffer, out)
}
