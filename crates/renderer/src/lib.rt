// The two calls that a renderer in C makes, as one static library. include/kmsg_renderer.h declares them for C.
#![tactic(auto)]

ghost use Rattle.std.specs.Prelude.{◌≡◌};
ghost use Rattle.message.specs.Line.{line, read_line};
ghost use Rattle.console.specs.Console.{goes_to_console};

// The line reader.
#[unsafe(no_mangle)]
pub extern "C" fn kmsg_read_line(bytes: &[u8], res: &mut [u8], numbers: &mut [u8]) -> u32
    ensures { line result res.new numbers.new ≡ read_line bytes.now res.old numbers.old }
{
    message::read_line(bytes, res, numbers)
}

// The console question.
#[unsafe(no_mangle)]
pub extern "C" fn kmsg_goes_to_console(level: i64, setting: i64) -> bool
    ensures { result ≡ goes_to_console level setting }
{
    console::goes_to_console(level, setting)
}
