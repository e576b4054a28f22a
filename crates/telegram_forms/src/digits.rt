// Digits, put into a telegram's bytes.
ghost use Rattle.std.specs.Prelude.{◌≡◌, [], ◌+◌, ◌%◌, ◌≤◌};
ghost use Rattle.std.proofs.lemmas.List.Edits.{sets};
ghost use Rattle.numerals.specs.Digits.{digits_of};
ghost use Rattle.telegram.specs.Telegram.{headed};
ghost use Rattle.telegram_forms.specs.Forms.{padded};

// The last digit of v.
fn digit(v: u32) -> u8
    ensures { result ≡ 48 + v % 10 }
{
    48 + (v % 10) as u8
}

// Puts the last W digits of v into a telegram from `at` on, the last one first. The longest telegram has 46 bytes.
pub fn digits<const W: usize>(mut t: [u8; 46], at: usize, v: u32) -> [u8; 46]
    requires { at + W ≤ 46 }
    ensures { result ≡ sets t at (digits_of W v) }
{
    let mut rest = v;
    for k in (0..W).rev() {
        t[at + k] = digit(rest);
        rest /= 10;
    }
    t
}

// "DV", the length of the whole telegram, organisation code 0 and the identifier.
pub fn header(size: u32, identifier: u32) -> [u8; 46]
    ensures { result ≡ padded (headed size 0 identifier []) }
{
    let mut t = [0u8; 46];
    t[0] = b'D';
    t[1] = b'V';
    let t = digits::<4>(t, 2, size);
    let t = digits::<4>(t, 6, 0);
    digits::<6>(t, 10, identifier)
}
