// The channels of a plan.
ghost use Rattle.std.specs.Prelude.{◌≡◌, ◌&&◌, ◌*◌, ◌≤◌, length};
ghost use Rattle.fields.specs.Fields.{between};
ghost use Rattle.plans.specs.Planned.{channels_read};

use channel::Channel;

// Whether a code is neither too low nor too high, and a mask has a desk and none that is not among `all`.
fn is_channel(low: u8, code: u8, all: u8, mask: u8) -> bool
    ensures { result ≡ (between low 99 code && between 1 all mask) }
{
    ((low <= code) & (code <= 99)) & ((1 <= mask) & (mask <= all))
}

// Reads n channels of a plan with so many desks, in order, with fillers behind them, if none is bad. The codes rise, so each
// makes the next one's `low`.
pub fn read_channels(s: &[u8], n: usize, desks: u8) -> Option<[Channel; 32]>
    requires { (n ≤ 32) × (2 * n ≤ length s.now) }
    ensures { result ≡ channels_read n desks s.now }
{
    let all = channel::first_desks(desks);
    let filler = Channel::new(0, 0);
    let mut channels = [filler; 32];
    let mut low = 0;
    for i in 0..n {
        let code = s[2 * i];
        let mask = s[2 * i + 1];
        if !is_channel(low, code, all, mask) {
            return None;
        }
        channels[i] = Channel::new(code, mask);
        low = code + 1;
    }
    Some(channels)
}
