// Single lines. Each function puts bytes at a place of a text that has room for them, and gives the place after.
ghost use Rattle.std.specs.Prelude.{[], ◌∷◌, ◌+◌, ◌≤◌, length};
ghost use Rattle.text.specs.Written.{Puts};
ghost use Rattle.answer_lines.specs.Lines.{entry_line, telegram_line, contact_line, record_line};

// The letter that a line starts with.
fn put_letter(letter: u8, text: &mut [u8], at: usize) -> usize
    requires { at + 2 ≤ length text.old }
    ensures { Puts text.old at (letter ∷ 32 ∷ []) text.new result }
{
    text[at] = letter;
    text[at + 1] = b' ';
    at + 2
}

// The entry's line.
pub fn put_entry(number: u64, refusal: u8, count: usize, text: &mut [u8], at: usize) -> usize
    requires { at + length (entry_line number refusal count) ≤ length text.old }
    ensures { Puts text.old at (entry_line number refusal count) text.new result }
{
    let first = put_letter(b'E', text, at);
    let second = text::put_item(number, b' ', text, first);
    let third = text::put_item(refusal as u64, b' ', text, second);
    text::put_item(count as u64, b'\n', text, third)
}

// The line of a telegram to a desk.
fn put_telegram(desk: u8, telegram: &[u8], text: &mut [u8], at: usize) -> usize
    requires { at + length (telegram_line desk telegram.now) ≤ length text.old }
    ensures { Puts text.old at (telegram_line desk telegram.now) text.new result }
{
    let first = put_letter(b'T', text, at);
    let second = text::put_item(desk as u64, b' ', text, first);
    let end = text::put_bytes(telegram, text, second);
    text::put_byte(b'\n', text, end)
}

// The line of a contact to a desk.
fn put_contact(desk: u8, contact: u8, channel: u8, on: u8, text: &mut [u8], at: usize) -> usize
    requires { at + length (contact_line desk contact channel on) ≤ length text.old }
    ensures { Puts text.old at (contact_line desk contact channel on) text.new result }
{
    let first = put_letter(b'C', text, at);
    let second = text::put_item(desk as u64, b' ', text, first);
    let third = text::put_item(contact as u64, b' ', text, second);
    let fourth = text::put_item(channel as u64, b' ', text, third);
    text::put_item(on as u64, b'\n', text, fourth)
}

// The line of a record, whatever its bytes: none where it is neither a telegram nor a contact.
pub fn put_record(bytes: &[u8], text: &mut [u8], at: usize) -> usize
    requires { at + length (record_line bytes.now) ≤ length text.old }
    ensures { Puts text.old at (record_line bytes.now) text.new result }
{
    let kind = frames::byte(bytes, 4);
    if kind == 1 {
        return put_telegram(bytes[3], &bytes[5..], text, at);
    }
    let contact = kind == 2;
    if contact {
        if 8 <= bytes.len() {
            return put_contact(bytes[3], bytes[5], bytes[6], bytes[7], text, at);
        }
    }
    at
}
