// The text of the records that a log is filled with.
ghost use Rattle.std.specs.Prelude.{◌≡◌, ℕ, ◌<◌, length, slice_index};
ghost use Rattle.workload.specs.Text.{text_byte};

// Letters in turn, and each last of so many bytes is a newline (0: none is).
fn text_byte(i: usize, every: usize) -> u8
    ensures { result ≡ text_byte every i }
{
    if 0 < every && i % every == every - 1 {
        b'\n'
    } else {
        b'a' + (i % 26) as u8
    }
}

pub fn put_text(text: &mut [u8], every: usize)
    ensures { (k : ℕ) → k < length text.old → slice_index text.new k ≡ text_byte every k }
{
    for (i, b) in text.iter_mut().enumerate() {
        *b = text_byte(i, every);
    }
}
