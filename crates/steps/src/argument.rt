// The number of rounds, from the argument.
ghost use Rattle.std.specs.Prelude.{◌≡◌};
ghost use Rattle.steps.specs.Rounds.{number_from, rounds_in};

// The number that the digits at the front of a text make, as far as it stays below 1,000,000,000.
fn number(text: &[u8]) -> u64
    ensures { result ≡ number_from 0 text.now }
{
    let mut n = 0;
    for &byte in text {
        let goes_on = byte.is_ascii_digit() & (n < 100000000);
        if !goes_on {
            break;
        }
        n = n * 10 + (byte - b'0') as u64;
    }
    n
}

// One round where there is no argument.
#[tactic(auto, unfolding(crate::specs::Rounds::rounds_in))]
pub fn rounds(text: &[u8]) -> u64
    ensures { result ≡ rounds_in text.now }
{
    if text.is_empty() {
        return 1;
    }
    number(text)
}
