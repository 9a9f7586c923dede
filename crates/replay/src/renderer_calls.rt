// The renderer's two calls: the line reader and the console question.
use message::Shape;
use record::Heading;
use script::answers::Told;
use script::words::{Bytes, Words};
use script::{decimals, lent};

// A number of the line reader's block, eight bytes long.
fn loaded(block: &[u8], at: usize) -> u64 {
    number::load_u64(block, at).unwrap_or(0)
}

// What the line reader made of a message that it accepted: the refusal's number, 0; prefix, sequence, time and flag; text, and behind it dictionary.
// Only as many bytes of the result may change as the block says.
fn accepted(res: &[u8], block: &[u8]) -> Told {
    let mut told = Told::form(1);
    told.numbers[1] = loaded(block, 0);
    told.numbers[2] = loaded(block, 8);
    told.numbers[3] = loaded(block, 16);
    told.numbers[4] = loaded(block, 40);
    told.to = decimals::size(loaded(block, 24), Heading::PAYLOAD);
    told.more = told.to + decimals::size(loaded(block, 32), Heading::PAYLOAD);
    told.marked(lent::stayed(res, told.more))
}

// A refusal changes no byte.
fn refused(refusal: u32, res: &[u8], block: &[u8]) -> Told {
    let stayed = lent::stayed(res, 0) & lent::stayed(block, 0);
    Told::number(u64::from(refusal)).marked(stayed)
}

pub fn line(words: &Words, bytes: &Bytes, space: &mut [u8]) -> Told {
    let mut result = [lent::FILL; Heading::PAYLOAD];
    let mut block = [lent::FILL; Shape::BLOCK];
    let refusal = message::read_line(words.bytes(1, bytes), &mut result, &mut block);
    slices::copy(&result, space, 0);
    if refusal == 0 {
        accepted(&result, &block)
    } else {
        refused(refusal, &result, &block)
    }
}

pub fn console(words: &Words) -> Told {
    if console::goes_to_console(words.signed(1), words.signed(2)) {
        Told::form(0)
    } else {
        Told::form(1)
    }
}
