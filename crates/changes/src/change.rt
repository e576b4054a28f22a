// An event on one channel: the channel as it is after it.
ghost use Rattle.std.specs.Prelude.{ℕ, ◌≡◌};
ghost use Rattle.sends.specs.Scripts.{Follows};
ghost use Rattle.set_rules.specs.SetRules.{moved_in, on_channel};
ghost use Rattle.set_rules.specs.Feeds.{emit};
ghost use Rattle.changes.specs.Changes.{InSets};

use super::lookup;
use channel::{Channel, Event, Moved};
use set_state::{Desk, Refusal};

// The channel after an entry, and the bytes written.
#[derive(Clone, Copy)]
pub struct Change {
    pub channel: Channel,
    pub count: usize,
}

// An event on a channel of a set with these desks, of which the plan has n.
pub fn moved(desks: [Desk; 4], n: u8, event: Event, c: Channel) -> Moved
    ensures { Follows result (moved_in desks n event c) }
{
    let listeners = lookup::listeners(desks, n, c.entitled);
    lines::happens(event, listeners, c)
}

// An event on the channel, and its records if there is room.
pub fn on_channel(
    desks: [Desk; 4],
    n: u8,
    event: Event,
    c: Channel,
    buffer: &mut [u8],
) -> Result<Change, Refusal>
    ensures { (ch : ℕ) → InSets desks n ch c (λ s. emit s (on_channel s ch event)) result buffer.old buffer.new }
{
    let m = moved(desks, n, event, c);
    let sends = m.sends;
    let need = bodies::space(sends);
    if buffer.len() < need {
        return Err(Refusal::NoRoom);
    }
    records::put(buffer, 0, desks, c.code, sends);
    let next = m.next;
    Ok(Change {
        channel: next,
        count: need,
    })
}
