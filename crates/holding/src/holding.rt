// Who holds a channel: the rules for capture, cut and release.
ghost use Rattle.std.specs.Prelude.{◌≡◌, [], ◌∷◌};
ghost use Rattle.channel.specs.State.{only};
ghost use Rattle.line_rules.specs.Rules.{step, to, captured, capture, cut, release};
ghost use Rattle.sends.specs.Scripts.{Follows};
ghost use Rattle.channel.specs.declared.state.Notice.TheVariants.{CaptureReply};

use channel::{Channel, Moved, Notice, Send, held_by, set_of};
use sends::{SILENT, alone, end, freed, press_sends, taken, to_desk};

// Nothing happens but the answer to a desk that asks for a channel or gives it back.
fn replied(d: u8, res: u8, channel: Channel) -> Moved
    ensures { Follows result (step channel (to (only d) (CaptureReply res) ∷ [])) }
{
    alone(channel, to_desk(d, Notice::CaptureReply { result: res }))
}

// A free channel gets its holder.
#[tactic(auto, unfolding(sends::specs::Scripts::heard))]
fn captured(listeners: u8, d: u8, channel: Channel) -> Moved
    ensures { Follows result (captured listeners d channel) }
{
    let answer = to_desk(d, Notice::CaptureReply { result: 0 });
    let state = taken(listeners, d);
    Moved {
        next: Channel {
            holder: Some(d),
            release: Channel::RELEASE,
            ..channel
        },
        sends: [answer, state, SILENT, SILENT, SILENT, SILENT, SILENT],
    }
}

// While a mobile rings nobody gets the channel.
#[tactic(auto, unfolding(line_rules::specs::Rules::capture))]
pub fn capture(listeners: u8, d: u8, channel: Channel) -> Moved
    ensures { Follows result (capture listeners d channel) }
{
    match channel.holder {
        None => {
            let rings = 0 < channel.ring;
            if rings {
                replied(d, 1, channel)
            } else {
                captured(listeners, d, channel)
            }
        }
        Some(h) => {
            let own = h == d;
            if own {
                replied(d, 0, channel)
            } else {
                replied(d, 1, channel)
            }
        }
    }
}

// A cut, with something sent before what a cut sends. The arrival stays: its mobile off is still to come.
fn cut_after(first: Send, listeners: u8, channel: Channel) -> Moved
    ensures { Follows result (step (cut listeners channel).next (first ∷ (cut listeners channel).sends)) }
{
    let off = press_sends(0, set_of(channel.presser), channel.call);
    let end = end(1, channel.call);
    let state = freed(listeners, channel.holder);
    Moved {
        next: Channel {
            holder: None,
            presser: None,
            quiet: 0,
            release: 0,
            call: None,
            ..channel
        },
        sends: [first, off.answer, off.talk, end, state, SILENT, SILENT],
    }
}

#[tactic(auto, unfolding(sends::specs::Scripts::heard))]
pub fn cut(listeners: u8, channel: Channel) -> Moved
    ensures { Follows result (cut listeners channel) }
{
    cut_after(SILENT, listeners, channel)
}

#[tactic(auto, unfolding(line_rules::specs::Rules::release))]
pub fn release(listeners: u8, d: u8, channel: Channel) -> Moved
    ensures { Follows result (release listeners d channel) }
{
    if held_by(d, channel.holder) {
        let answer = to_desk(d, Notice::CaptureReply { result: 0 });
        cut_after(answer, listeners, channel)
    } else {
        replied(d, 1, channel)
    }
}
