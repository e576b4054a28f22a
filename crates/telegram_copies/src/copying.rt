// Telegrams, put into a buffer.
ghost use Rattle.std.specs.Prelude.{◌≡◌, ◌++◌, ◌+◌, ◌≤◌, length, take, drop};
ghost use Rattle.std.proofs.lemmas.List.Edits.{sets};
ghost use Rattle.numerals.specs.Digits.{digits_of};

// Puts the last four digits of v into a buffer from `at` on. By hundreds it takes fewer divisions.
fn put_four(buffer: &mut [u8], at: usize, v: u32)
    requires { at + 4 ≤ length buffer.old }
    ensures { buffer.new ≡ sets buffer.old at (digits_of 4 v) }
{
    let high = v / 100 % 100;
    let low = v % 100;
    buffer[at] = 48 + (high / 10) as u8;
    buffer[at + 1] = 48 + (high % 10) as u8;
    buffer[at + 2] = 48 + (low / 10) as u8;
    buffer[at + 3] = 48 + (low % 10) as u8;
}

// Puts a number of eight digits into a telegram.
pub fn put_number(buffer: &mut [u8], at: usize, v: u32)
    requires { at + 8 ≤ length buffer.old }
    ensures { buffer.new ≡ sets buffer.old at (digits_of 8 v) }
{
    put_four(buffer, at, v / 10 / 10 / 10 / 10);
    put_four(buffer, at + 4, v);
}

// Puts a telegram of n bytes, made under code 0, to the front of a buffer under an organisation code.
pub fn put_form(form: &[u8], n: usize, code: u32, buffer: &mut [u8])
    requires { (n ≤ length form.now) × (n ≤ length buffer.old) × (10 ≤ length buffer.old) }
    ensures { buffer.new ≡ sets (take n form.now ++ drop n buffer.old) 6 (digits_of 4 code) }
{
    buffer[..n].copy_from_slice(&form[..n]);
    put_four(buffer, 6, code);
}
