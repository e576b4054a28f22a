// Numbers that stand in bytes.
ghost use Rattle.std.specs.Prelude.{◌≡◌};
ghost use Rattle.frames.specs.Bytes.{byte, word};

// The byte at a place, and 0 past the end.
pub fn byte(s: &[u8], at: usize) -> u8
    ensures { result ≡ byte s.now at }
{
    s.get(at).copied().unwrap_or(0)
}

// The first two bytes, big-endian.
pub fn word(s: &[u8]) -> usize
    ensures { result ≡ word s.now 0 }
{
    let high = usize::from(byte(s, 0));
    let low = usize::from(byte(s, 1));
    high * 256 + low
}
