// What an entry about one channel changes: it is judged, and then happens there.
ghost use Rattle.std.specs.Prelude.{◌≡◌};
ghost use Rattle.set_state.specs.Entry.{refusal_in};
ghost use Rattle.changes.specs.Changes.{Hears, RefusedWith, event_for, AnswersTo};

use super::change::Change;
use super::{change, lookup};
use channel::{Channel, Event};
use set_state::{Desk, Entry, Refusal};
use telegram_requests::LineRequest;

// Whether the desk that a mobile rings listens on the channel. It is asked of no other event.
fn is_heard(desks: [Desk; 4], n: u8, event: Event, c: Channel) -> bool
    ensures { Hears desks n c event result }
{
    match event {
        Event::Ring { desk, base, number } => {
            let listeners = lookup::listeners(desks, n, c.entitled);
            channel::is_in(desk, listeners)
        }
        _ => false,
    }
}

// Whether what is asked of a channel is refused, but for the room.
fn refusal_of(
    desks: [Desk; 4],
    n: u8,
    x: Entry,
    request: LineRequest,
    found: bool,
    c: Channel,
) -> Result<(), Refusal>
    ensures { RefusedWith desks n x request found c (refusal_in result) }
{
    match request {
        LineRequest::OnChannel {
            code,
            number,
            event,
        } => {
            let desk = set_state::desk_at(desks, x.desk());
            let own = desk.number;
            let heard = is_heard(desks, n, event, c);
            judging::judge(x, number, own, heard, found, c)
        }
        LineRequest::AnswersRing(answer) => {
            if judging::may_use(x.desk(), found, c) {
                Ok(())
            } else {
                Err(Refusal::NotEntitled)
            }
        }
    }
}

// What happens, if desk d asks. A ring answer that does not match happens too, and says so.
fn event_of(desks: [Desk; 4], d: u8, request: LineRequest, c: Channel) -> Event
    ensures { result ≡ event_for desks d request c }
{
    match request {
        LineRequest::OnChannel {
            code,
            number,
            event,
        } => event,
        LineRequest::AnswersRing(answer) => {
            let desk = set_state::desk_at(desks, d);
            let own = desk.number;
            let matched = judging::answers_ring(d, own, answer, c);
            Event::RingAnswer { desk: d, matched }
        }
    }
}

// An entry about one channel. `found` says whether the plan has the channel that it names; if not, c is any.
pub fn change_of(
    desks: [Desk; 4],
    n: u8,
    x: Entry,
    request: LineRequest,
    found: bool,
    c: Channel,
    buffer: &mut [u8],
) -> Result<Change, Refusal>
    ensures { AnswersTo desks n x request found c result buffer.old buffer.new }
{
    refusal_of(desks, n, x, request, found, c)?;
    let event = event_of(desks, x.desk(), request, c);
    change::on_channel(desks, n, event, c, buffer)
}
