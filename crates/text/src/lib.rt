// Bytes and numbers as text. Each function puts bytes at a place of a text that has room for them, and gives the place
// after.
// (No cursor of text and place: each contract would gain a clause, that it still holds the same text, and each asks for other room.)
#![tactic(auto)]

ghost use Rattle.std.specs.Prelude.{◌≡◌, [], ◌∷◌, ◌++◌, ◌+◌, ◌%◌, ◌≤◌, ◌<◌, length};
ghost use Rattle.numerals.specs.Digits.{digits_of};
ghost use Rattle.text.specs.Written.{Puts};
ghost use Rattle.text.specs.Decimal.{decimal, signed};

// One byte.
pub fn put_byte(byte: u8, text: &mut [u8], at: usize) -> usize
    requires { at + 1 ≤ length text.old }
    ensures { Puts text.old at (byte ∷ []) text.new result }
{
    text[at] = byte;
    at + 1
}

// Some bytes as they are.
pub fn put_bytes(bytes: &[u8], text: &mut [u8], at: usize) -> usize
    requires { at + length bytes.now ≤ length text.old }
    ensures { Puts text.old at bytes.now text.new result }
{
    text[at..at + bytes.len()].copy_from_slice(bytes);
    at + bytes.len()
}

// The last digit of a number.
fn digit(n: u64) -> u8
    ensures { result ≡ 48 + n % 10 }
{
    48 + (n % 10) as u8
}

// The last three digits of a number.
fn put_three(n: u64, text: &mut [u8], at: usize) -> usize
    requires { at + 3 ≤ length text.old }
    ensures { Puts text.old at (digits_of 3 n) text.new result }
{
    text[at] = digit(n / 10 / 10);
    text[at + 1] = digit(n / 10);
    text[at + 2] = digit(n);
    at + 3
}

// A number below a thousand.
fn put_small(n: u64, text: &mut [u8], at: usize) -> usize
    requires { (n < 1000) × (at + length (decimal n) ≤ length text.old) }
    ensures { Puts text.old at (decimal n) text.new result }
{
    if n < 10 {
        text[at] = digit(n);
        return at + 1;
    }
    if n < 100 {
        text[at] = digit(n / 10);
        text[at + 1] = digit(n);
        return at + 2;
    }
    put_three(n, text, at)
}

// The thousands of a number, of which most have none.
fn put_thousands(n: u64, text: &mut [u8], at: usize) -> usize
    requires { at + length (decimal n) ≤ length text.old }
    ensures { Puts text.old at (decimal n) text.new result }
{
    if n < 1000 {
        return put_small(n, text, at);
    }
    let place = put_thousands(n / 1000, text, at);
    put_three(n, text, place)
}

// A number, in decimal. It calls itself only through `put_thousands`, so that a small one is put without a call.
pub fn put_number(n: u64, text: &mut [u8], at: usize) -> usize
    requires { at + length (decimal n) ≤ length text.old }
    ensures { Puts text.old at (decimal n) text.new result }
{
    if n > 999 {
        let place = put_thousands(n / 1000, text, at);
        return put_three(n, text, place);
    }
    put_small(n, text, at)
}

// A number, and the byte after it.
pub fn put_item(number: u64, after: u8, text: &mut [u8], at: usize) -> usize
    requires { at + length (decimal number) + 1 ≤ length text.old }
    ensures { Puts text.old at (decimal number ++ (after ∷ [])) text.new result }
{
    let end = put_number(number, text, at);
    put_byte(after, text, end)
}

// A number that may be below zero: a minus sign, and how far below.
pub fn put_signed(n: i64, text: &mut [u8], at: usize) -> usize
    requires { at + length (signed n) ≤ length text.old }
    ensures { Puts text.old at (signed n) text.new result }
{
    let size = n.unsigned_abs();
    if n < 0 {
        let place = put_byte(b'-', text, at);
        return put_number(size, text, place);
    }
    put_number(size, text, at)
}
