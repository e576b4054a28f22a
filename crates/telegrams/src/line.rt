// The line for one telegram.
ghost use Rattle.std.specs.Prelude.{◌≡◌, true, ◌+◌, ◌≤◌, length};
ghost use Rattle.text.specs.Written.{Puts};
ghost use Rattle.telegram.specs.Telegram.{sendable, telegram_of};
ghost use Rattle.telegrams.specs.Lines.{message_line, answer_line};

use telegram::Message;

// No line is longer.
pub const ROOM: usize = 64;

// A message as the writer writes it. One that can be sent and has room is not refused.
fn put_message(message: Message, code: u32, text: &mut [u8], at: usize) -> usize
    requires { (sendable code message ≡ true) × (at + 46 ≤ length text.old) }
    ensures { Puts text.old at (telegram_of code message) text.new result }
{
    match telegram_writer::write(message, code, &mut text[at..]) {
        Ok(n) => at + n,
        Err(error) => at,
    }
}

// 0, a space, and the telegram.
fn put_telegram(message: Message, code: u32, text: &mut [u8], at: usize) -> usize
    requires { (sendable code message ≡ true) × (at + 64 ≤ length text.old) }
    ensures { Puts text.old at (message_line code message) text.new result }
{
    let first = text::put_byte(b'0', text, at);
    let second = text::put_byte(b' ', text, first);
    let third = put_message(message, code, text, second);
    text::put_byte(b'\n', text, third)
}

// Puts the line for a telegram at a place of a text that has room for it, and gives the place after.
pub fn put_line(telegram: &[u8], text: &mut [u8], at: usize) -> usize
    requires { at + 64 ≤ length text.old }
    ensures { Puts text.old at (answer_line telegram.now) text.new result }
{
    match telegram_reader::read(telegram) {
        Ok(read) => put_telegram(read.message, read.code, text, at),
        Err(error) => text::put_item(error.refusal() as u64, b'\n', text, at),
    }
}
