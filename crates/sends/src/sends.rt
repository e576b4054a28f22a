// What the rules send. A send to the empty set stands where a rule sends nothing.
ghost use Rattle.std.specs.Prelude.{◌≡◌, [], ◌∷◌};
ghost use Rattle.channel.specs.State.{only, holder_place};
ghost use Rattle.line_rules.specs.Rules.{step, to, sent_if, kind_of, call_sends, start_of, opening_sends, end_of, mobile_off_sends, ring_off_sends};
ghost use Rattle.sends.specs.Scripts.{Follows, heard, press_sends, mobile_sends};
ghost use Rattle.channel.specs.declared.state.Notice.TheVariants.{CaptureState};

use channel::{Arrival, Call, Channel, Moved, NOBODY, Notice, Send, holder_place, only, set_if};

// The type of the talk in a call.
pub fn kind_of(call: Option<Call>) -> u8
    ensures { result ≡ kind_of call }
{
    match call {
        None => Call::GENERAL,
        Some(open) => open.kind,
    }
}

// Stands where a rule sends nothing: written out in each script, since a helper that fills a script up would copy in a loop.
pub const SILENT: Send = Send {
    recipients: NOBODY,
    notice: Notice::PressAnswer { on: 0 },
};

// What one desk alone is told.
pub fn to_desk(d: u8, notice: Notice) -> Send
    ensures { result ≡ to (only d) notice }
{
    Send {
        recipients: only(d),
        notice,
    }
}

// The start of a call (`start` is 1) or its end.
#[tactic(auto, unfolding(crate::specs::Scripts::heard))]
fn of_call(start: u8, reason: u8, call: Option<Call>) -> Send
    ensures { heard (result ∷ []) ≡ heard (call_sends start reason call) }
{
    let Some(open) = call else {
        return SILENT;
    };
    Send {
        recipients: open.recipients,
        notice: Notice::Call {
            kind: open.kind,
            direction: open.direction,
            base: open.base,
            source: open.source,
            start,
            reason,
        },
    }
}

// The start of a call, if one is open.
pub fn start(call: Option<Call>) -> Send
    ensures { heard (result ∷ []) ≡ heard (start_of call) }
{
    of_call(1, 0, call)
}

// The start that goes with `opened_by`: none while a call is open.
#[tactic(auto, unfolding(crate::specs::Scripts::heard))]
pub fn opening(call: Option<Call>, new: Call) -> Send
    ensures { heard (result ∷ []) ≡ heard (opening_sends call new) }
{
    match call {
        None => of_call(1, 0, Some(new)),
        Some(_) => SILENT,
    }
}

// The end of a call, if one is open.
pub fn end(reason: u8, call: Option<Call>) -> Send
    ensures { heard (result ∷ []) ≡ heard (end_of reason call) }
{
    of_call(0, reason, call)
}

// What is sent to a desk that presses (`on` is 1) or no longer does.
#[derive(Clone, Copy)]
pub struct PressSends {
    pub answer: Send,
    pub talk: Send,
}

pub fn press_sends(on: u8, recipients: u8, call: Option<Call>) -> PressSends
    ensures { result ≡ press_sends on recipients call }
{
    let kind = kind_of(call);
    PressSends {
        answer: Send {
            recipients,
            notice: Notice::PressAnswer { on },
        },
        talk: Send {
            recipients,
            notice: Notice::PressNotice { kind, order: on },
        },
    }
}

// What is sent when a mobile starts to talk (`on` is 1) or ends.
#[derive(Clone, Copy)]
pub struct MobileSends {
    pub incoming: Send,
    pub arrival: Send,
    pub talk: Send,
}

pub fn mobile_sends(on: u8, arrival: Arrival) -> MobileSends
    ensures { result ≡ mobile_sends on arrival }
{
    MobileSends {
        incoming: Send {
            recipients: arrival.recipients,
            notice: Notice::Incoming { on },
        },
        arrival: Send {
            recipients: arrival.recipients,
            notice: Notice::BaseArrival {
                kind: arrival.kind,
                base: arrival.base,
                number: arrival.number,
                order: on,
            },
        },
        talk: Send {
            recipients: arrival.recipients,
            notice: Notice::CallerNotice {
                kind: arrival.kind,
                base: arrival.base,
                number: arrival.number,
                order: on,
            },
        },
    }
}

// What ends an arrival, if there is one.
#[tactic(auto, unfolding(crate::specs::Scripts::heard))]
pub fn mobile_off_sends(arrival: Option<Arrival>) -> MobileSends
    ensures { heard (result.incoming ∷ result.arrival ∷ result.talk ∷ []) ≡ heard (mobile_off_sends arrival) }
{
    match arrival {
        None => MobileSends {
            incoming: SILENT,
            arrival: SILENT,
            talk: SILENT,
        },
        Some(talking) => mobile_sends(0, talking),
    }
}

// What is sent to the desk that a mobile rang and that did not answer.
#[derive(Clone, Copy)]
pub struct RingSends {
    pub incoming: Send,
    pub result: Send,
}

// What ends a ring, if a mobile rings: its call was told to the called desk.
#[tactic(auto, unfolding(crate::specs::Scripts::heard))]
pub fn ring_off_sends(ringing: bool, call: Option<Call>) -> RingSends
    ensures { heard (result.incoming ∷ result.result ∷ []) ≡ heard (sent_if ringing (ring_off_sends call)) }
{
    let Some(ring) = call else {
        return RingSends {
            incoming: SILENT,
            result: SILENT,
        };
    };
    let recipients = set_if(ringing, ring.recipients);
    RingSends {
        incoming: Send {
            recipients,
            notice: Notice::Incoming { on: 0 },
        },
        result: Send {
            recipients,
            notice: Notice::CallResult { result: 0 },
        },
    }
}

// That desk d has the channel. It gets its own number with it, and no other desk does.
pub fn taken(recipients: u8, d: u8) -> Send
    ensures { result ≡ to recipients (CaptureState d 1) }
{
    Send {
        recipients,
        notice: Notice::CaptureState {
            holder: d,
            state: 1,
        },
    }
}

// That the channel is free. It has the place of who had it, for the same reason.
pub fn freed(recipients: u8, holder: Option<u8>) -> Send
    ensures { result ≡ to recipients (CaptureState (holder_place holder) 0) }
{
    let place = holder_place(holder);
    Send {
        recipients,
        notice: Notice::CaptureState {
            holder: place,
            state: 0,
        },
    }
}

// What a rule gives that sends one thing at most.
#[tactic(auto, unfolding(crate::specs::Scripts::heard))]
pub fn alone(next: Channel, send: Send) -> Moved
    ensures { Follows result (step next (send ∷ [])) }
{
    Moved {
        next,
        sends: [send, SILENT, SILENT, SILENT, SILENT, SILENT, SILENT],
    }
}
