// Events on one channel, and a handover, which is two events on every channel of the plan, in its order.
ghost use Rattle.std.specs.Prelude.{◌≡◌, ◌+◌, ◌≤◌, length};
ghost use Rattle.records.specs.Emitting.{PutAt};
ghost use Rattle.set_rules.specs.Records.{records_of, space_of};
ghost use Rattle.set_rules.specs.SetRules.{sent_in, on_handover};

use super::places;
use channel::{Channel, Event};
use set_state::{Desk, LineSet};

// The space that an event on one channel takes.
pub fn space_in(desks: [Desk; 4], n: u8, event: Event, c: Channel) -> usize
    ensures { (result ≡ space_of (sent_in desks n event c)) × (result ≤ 2856) }
{
    let m = changes::moved(desks, n, event, c);
    let sends = m.sends;
    bodies::space(sends)
}

// Writes what an event on one channel sends, from a place on, and gives the place behind.
pub fn put_in(
    buffer: &mut [u8],
    at: usize,
    desks: [Desk; 4],
    n: u8,
    event: Event,
    c: Channel,
) -> usize
    requires { at + length (records_of desks (sent_in desks n event c)) ≤ length buffer.old }
    ensures { PutAt at (records_of desks (sent_in desks n event c)) result buffer.old buffer.new }
{
    let m = changes::moved(desks, n, event, c);
    let sends = m.sends;
    records::put(buffer, at, desks, c.code, sends)
}

// The space that a handover takes. By value, since it is rare: the array's length is then known by the parameter.
pub fn space_all(set: LineSet) -> usize
    ensures { result ≡ space_of (on_handover set).sent }
{
    let desks = set.desks;
    let n = set.size.desks;
    let end = places::count_of(set.size.channels);
    let mut sum = 0;
    for i in 0..end {
        let c = set.channels[i];
        sum += space_in(desks, n, Event::EndTalk, c);
        sum += space_in(desks, n, Event::EndCall, c);
    }
    sum
}

// Writes what a handover sends.
pub fn put_all(set: LineSet, buffer: &mut [u8]) -> usize
    requires { length (records_of set.desks (on_handover set).sent) ≤ length buffer.old }
    ensures { PutAt 0 (records_of set.desks (on_handover set).sent) result buffer.old buffer.new }
{
    let desks = set.desks;
    let n = set.size.desks;
    let end = places::count_of(set.size.channels);
    let mut at = 0;
    for i in 0..end {
        let c = set.channels[i];
        at = put_in(buffer, at, desks, n, Event::EndTalk, c);
        at = put_in(buffer, at, desks, n, Event::EndCall, c);
    }
    at
}
