// A mobile that rings one desk: the rules for the ring, for its end without an answer, and for the answer.
ghost use Rattle.std.specs.Prelude.{◌≡◌};
ghost use Rattle.line_rules.specs.Rules.{with_ring, with_call, ring, unanswered, answered, ring_answer};
ghost use Rattle.sends.specs.Scripts.{Follows};

use channel::{Call, Channel, Moved, Notice, only};
use sends::{SILENT, alone, end, ring_off_sends, start, taken, to_desk};
use telegram::Number;

// The channel with another ring timer and call: a ring is both.
fn with_ring(left: u8, call: Option<Call>, channel: Channel) -> Channel
    ensures { result ≡ with_ring left (with_call call channel) }
{
    Channel {
        ring: left,
        call,
        ..channel
    }
}

// A mobile rings a desk: all of it to that desk alone.
#[tactic(auto, unfolding(line_rules::specs::Rules::ring, sends::specs::Scripts::heard))]
pub fn ring(d: u8, base: u8, number: Number, channel: Channel) -> Moved
    ensures { Follows result (ring d base number channel) }
{
    let call = Some(Call {
        kind: Call::INDIVIDUAL,
        direction: Call::UP,
        recipients: only(d),
        base: base as u16,
        source: number,
    });
    let incoming = to_desk(d, Notice::Incoming { on: 1 });
    let notice = to_desk(d, Notice::RingNotice { number });
    let start = start(call);
    Moved {
        next: with_ring(Channel::RING, call, channel),
        sends: [incoming, notice, start, SILENT, SILENT, SILENT, SILENT],
    }
}

// The ring ends without an answer, and with it the call.
pub fn unanswered(reason: u8, channel: Channel) -> Moved
    ensures { Follows result (unanswered reason channel) }
{
    let off = ring_off_sends(true, channel.call);
    let end = end(reason, channel.call);
    Moved {
        next: with_ring(0, None, channel),
        sends: [
            off.incoming,
            off.result,
            end,
            SILENT,
            SILENT,
            SILENT,
            SILENT,
        ],
    }
}

// The desk that answers gets the channel, as by a capture, and the call goes on.
#[tactic(auto, unfolding(line_rules::specs::Rules::answered, sends::specs::Scripts::heard))]
fn answered(listeners: u8, d: u8, channel: Channel) -> Moved
    ensures { Follows result (answered listeners d channel) }
{
    let answer = to_desk(d, Notice::AnswerReply { result: 1 });
    let result = to_desk(d, Notice::CallResult { result: 1 });
    let state = taken(listeners, d);
    Moved {
        next: Channel {
            holder: Some(d),
            quiet: Channel::QUIET,
            release: Channel::RELEASE,
            ring: 0,
            ..channel
        },
        sends: [answer, result, state, SILENT, SILENT, SILENT, SILENT],
    }
}

// Whether the answer matches the ring is not for the rule to say.
#[tactic(auto, unfolding(line_rules::specs::Rules::ring_answer))]
pub fn ring_answer(listeners: u8, d: u8, matched: bool, channel: Channel) -> Moved
    ensures { Follows result (ring_answer listeners d matched channel) }
{
    if matched {
        answered(listeners, d, channel)
    } else {
        alone(channel, to_desk(d, Notice::AnswerReply { result: 0 }))
    }
}
