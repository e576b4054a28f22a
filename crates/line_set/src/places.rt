// Channels by their place in the plan: how many there are to look at, and the one to look at.
ghost use Rattle.std.specs.Prelude.{◌≡◌, cond, ◌≤◌, ◌<◌, ltb};
ghost use Rattle.set_state.specs.State.{place_of};
ghost use Rattle.changes.specs.Changes.{Stands};

use channel::Channel;
use set_state::LineSet;

// A channel that was sought by its code: its place, and the channel there. Where the plan has none, both are those of any.
#[derive(Clone, Copy)]
pub struct Sought {
    pub place: usize,
    pub found: bool,
    pub channel: Channel,
}

// How many of 32 channels are the first n.
pub fn count_of(n: u8) -> usize
    ensures { (result ≡ cond (ltb 32 n) 32 n) × (result ≤ 32) }
{
    if 32 < n { 32 } else { n as usize }
}

// The place of the first channel with a code; how many there are, if none has it.
fn place_of(channels: &[Channel], code: u32) -> usize
    ensures { result ≡ place_of code channels.now }
{
    for i in 0..channels.len() {
        let c = channels[i];
        if c.code as u32 == code {
            return i;
        }
    }
    channels.len()
}

// A place below the end, or the first where there is none.
fn place_below(end: usize, place: usize) -> usize
    requires { end ≤ 32 }
    ensures { (result ≡ cond (ltb place end) place 0) × (result < 32) }
{
    if place < end { place } else { 0 }
}

// The channel of the plan with a code.
pub fn seek(set: &LineSet, code: u32) -> Sought
    ensures { Stands set.now code result.place result.found result.channel × (result.place < 32) }
{
    let count = count_of(set.size.channels);
    let i = place_of(&set.channels[..count], code);
    let place = place_below(count, i);
    let found = i < count;
    let channel = set.channels[place];
    Sought {
        place,
        found,
        channel,
    }
}
