// What a telegram about a desk's link changes: the desks as they are after it.
ghost use Rattle.std.specs.Prelude.{◌≡◌};
ghost use Rattle.set_rules.specs.SetRules.{time_taken, answer_taken, on_link};
ghost use Rattle.set_rules.specs.Feeds.{emit};
ghost use Rattle.changes.specs.Changes.{InDesks};

use super::lookup;
use bodies::Body;
use set_state::{Desk, LinkRequest, Refusal};

// The desks after it, and the bytes written.
#[derive(Clone, Copy)]
pub struct LinkChange {
    pub desks: [Desk; 4],
    pub count: usize,
}

// 550411: the operation request goes out, and the link's next phase is the second.
fn time_told(desks: [Desk; 4], d: u8, buffer: &mut [u8]) -> Result<LinkChange, Refusal>
    ensures { InDesks desks (λ s. emit s (time_taken s d)) result buffer.old buffer.new }
{
    let recipients = channel::only(d);
    let need = bodies::space_to(recipients, Body::OperationRequest);
    if buffer.len() < need {
        return Err(Refusal::NoRoom);
    }
    records::put_to(buffer, 0, desks, recipients, Body::OperationRequest);
    let desk = set_state::desk_at(desks, d);
    let link = desk.link.time_told();
    let after = lookup::linked(desks, d, link);
    Ok(LinkChange {
        desks: after,
        count: need,
    })
}

// 550421: nothing is sent.
fn answered(desks: [Desk; 4], d: u8, state: u32, buffer: &mut [u8]) -> Result<LinkChange, Refusal>
    ensures { InDesks desks (λ s. emit s (answer_taken s d state)) result buffer.old buffer.new }
{
    let desk = set_state::desk_at(desks, d);
    let link = desk.link.answered(state);
    let after = lookup::linked(desks, d, link);
    Ok(LinkChange {
        desks: after,
        count: 0,
    })
}

// What desk d says of its link, in the phase that this needs.
pub fn link_change(
    desks: [Desk; 4],
    d: u8,
    request: LinkRequest,
    buffer: &mut [u8],
) -> Result<LinkChange, Refusal>
    ensures { InDesks desks (λ s. emit s (on_link s d request)) result buffer.old buffer.new }
{
    match request {
        LinkRequest::TellsTime => time_told(desks, d, buffer),
        LinkRequest::TellsState { state } => answered(desks, d, state, buffer),
    }
}
