// The program `join_lines` (document 02, ticket 6): messages joined, and each text that is given written as a line.
#![tactic(auto)]

ghost use Rattle.std.specs.Prelude.{◌≡◌, ◌+◌, ◌≤◌, length, take, drop, Ok};
ghost use Rattle.escape.specs.Answers.{Written};
ghost use Rattle.feed.specs.Feed.{messages};
ghost use Rattle.refusal.specs.Numbers.{numbered};
ghost use Rattle.joiner.specs.Joiner.{fresh, state};
ghost use Rattle.joiner.specs.Whole.{joining, closing, shown_by, called, all_shown};
ghost use Rattle.joinfeed.specs.Lines.{result as lent, text_line, text_lines, count_refused, joinings, closings, output, buffer_after};
ghost use Rattle.joinfeed.specs.Steps.{Steps, Runs};

use feed::{Messages, Received};
use joiner::{Answer, Joiner, Texts};

// Bytes that have room for all that is written: the lines have at most four bytes for each byte of the input, and behind them are 8
// bytes, 20 digits and a newline.
pub const OUTPUT: usize = 4 * Received::INPUT + 8 + 20 + 1;

// How often the host closes at the end: once for each text that can be open.
const CLOSES: usize = channel::CHANNELS;

// The joiner, how many messages it refused, and the place behind the lines written.
#[derive(Clone, Copy)]
struct Progress {
    joiner: Joiner,
    refused: u64,
    end: usize,
}

// 1 for a refusal, 0 for none.
fn count_refused(answer: Answer) -> u64
    ensures { result ≡ count_refused (numbered answer) }
{
    u64::from(answer.is_err())
}

// A text's line, put at a place where there is room for it; the place behind it.
fn write_text(facility: u64, text: &[u8], out: &mut [u8], at: usize) -> usize
    requires { at + length (text_line facility text.now) ≤ length out.old }
    ensures { Written out.old at (text_line facility text.now) result out.new }
{
    let from = feed::write_field(facility, b' ', out, at);
    let end = escape::write_escaped(text, out, from);
    out[end] = b'\n';
    end + 1
}

// The lines of the texts that a call gives, a closed one before the message that closed it.
fn write_texts(texts: Texts, first: &[u8], second: &[u8], out: &mut [u8], at: usize) -> usize
    requires { at + length (text_lines (shown_by (Ok texts) first.now second.now)) ≤ length out.old }
    ensures { Written out.old at (text_lines (shown_by (Ok texts) first.now second.now)) result out.new }
{
    match texts {
        Texts::Nothing => at,
        Texts::One(t) => write_text(t.facility, slices::front(first, t.size), out, at),
        Texts::Two(t, u) => {
            let next = write_text(t.facility, slices::front(first, t.size), out, at);
            write_text(u.facility, slices::front(second, u.size), out, next)
        }
    }
}

// The lines of a call's answer: none, where it refuses.
fn write_answer(answer: Answer, first: &[u8], second: &[u8], out: &mut [u8], at: usize) -> usize
    requires { at + length (text_lines (shown_by (numbered answer) first.now second.now)) ≤ length out.old }
    ensures { Written out.old at (text_lines (shown_by (numbered answer) first.now second.now)) result out.new }
{
    match answer {
        Ok(texts) => write_texts(texts, first, second, out, at),
        Err(_) => at,
    }
}

// One message joined, and the lines of the texts that it gives, at a place where there is room for them. Its two results, 960 bytes each, lie on the stack.
fn take(joiner: Joiner, texts: &mut [u8], m: &[u8], out: &mut [u8], at: usize) -> Progress
    requires { at + length (text_lines (called (state joiner.slots joiner.last texts.old) (joining m.now lent lent)).shown) ≤ length out.old }
    ensures { Steps (state joiner.slots joiner.last texts.old) (joining m.now lent lent) out.old at result texts.new out.new }
{
    let mut first = [0u8; Joiner::TEXT];
    let mut second = [0u8; Joiner::TEXT];
    let told = joiner::join(joiner, texts, m, &mut first, &mut second);
    Progress {
        joiner: told.joiner,
        refused: count_refused(told.answer),
        end: write_answer(told.answer, &first, &second, out, at),
    }
}

// The lowest open text closed, and its line, at a place where there is room for it. It is not one function with `take`: a close
// is lent no message, can't touch the texts, and has one result.
fn close(joiner: Joiner, texts: &[u8], out: &mut [u8], at: usize) -> Progress
    requires { at + length (text_lines (called (state joiner.slots joiner.last texts.now) (closing lent)).shown) ≤ length out.old }
    ensures { Steps (state joiner.slots joiner.last texts.now) (closing lent) out.old at result texts.now out.new }
{
    let mut given = [0u8; Joiner::TEXT];
    let told = joiner::close(joiner, texts, &mut given);
    Progress {
        joiner: told.joiner,
        refused: count_refused(told.answer),
        end: write_answer(told.answer, &given, &[], out, at),
    }
}

// All messages of a feed, joined one after the other from a fresh joiner, and their lines at the front of a buffer that has room for them.
fn take_all(input: &[u8], texts: &mut [u8], out: &mut [u8]) -> Progress
    requires { length (text_lines (all_shown (fresh texts.old) (joinings (messages input.now)))) ≤ length out.old }
    ensures { Runs (fresh texts.old) (joinings (messages input.now)) out.old 0 result texts.new out.new }
{
    let mut joiner = Joiner::new();
    let mut refused: u64 = 0;
    let mut end = 0;
    for message in Messages(input) {
        let step = take(joiner, texts, message, out, end);
        joiner = step.joiner;
        refused += step.refused;
        end = step.end;
    }
    Progress {
        joiner,
        refused,
        end,
    }
}

// What is open, closed, and its lines at a place where there is room for them; the place behind them.
fn close_all(joiner: Joiner, texts: &[u8], out: &mut [u8], at: usize) -> usize
    requires { at + length (text_lines (all_shown (state joiner.slots joiner.last texts.now) closings)) ≤ length out.old }
    ensures { Written out.old at (text_lines (all_shown (state joiner.slots joiner.last texts.now) closings)) result out.new }
{
    let mut left = joiner;
    let mut end = at;
    for _ in 0..CLOSES {
        let step = close(left, texts, out, end);
        left = step.joiner;
        end = step.end;
    }
    end
}

// All that the program writes for this input, at the front of a buffer that has room for any; how many bytes they are.
pub fn run(input: &[u8], texts: &mut [u8], out: &mut [u8; OUTPUT]) -> usize
    ensures fact { (take result out.new ≡ output texts.old input.now) × (drop result out.new ≡ drop result out.old) }
    ensures texts_after { texts.new ≡ buffer_after texts.old input.now }
{
    if Received::INPUT < input.len() {
        return slices::copy(b"input too long\n", out, 0).unwrap();
    }
    let taken = take_all(input, texts, out);
    let end = close_all(taken.joiner, texts, out, taken.end);
    feed::write_refused(taken.refused, out, end)
}
