// What happens on a channel by its event. What ends all that goes on, at a handover, is here too.
ghost use Rattle.line_rules.specs.Rules.{end_talk, end_call, happens};
ghost use Rattle.sends.specs.Scripts.{Follows};

use super::ticking::tick;
use channel::{Channel, Event, Moved, is_held, set_if, set_of};
use holding::{capture, cut, release};
use rings::{ring, ring_answer, unanswered};
use sends::{SILENT, end, freed, mobile_off_sends, press_sends, ring_off_sends};
use talk::{mobile_off, mobile_on, press_off, press_on};

// Whoever talks ends.
fn end_talk(channel: Channel) -> Moved
    ensures { Follows result (end_talk channel) }
{
    let press = press_sends(0, set_of(channel.presser), channel.call);
    let mobile = mobile_off_sends(channel.arrival);
    Moved {
        next: Channel::new(channel.code, channel.entitled),
        sends: [
            press.answer,
            press.talk,
            mobile.incoming,
            mobile.arrival,
            mobile.talk,
            SILENT,
            SILENT,
        ],
    }
}

// The ring, the call and the hold end.
fn end_call(listeners: u8, channel: Channel) -> Moved
    ensures { Follows result (end_call listeners channel) }
{
    let off = ring_off_sends(0 < channel.ring, channel.call);
    let end = end(2, channel.call);
    let recipients = set_if(is_held(channel.holder), listeners);
    let state = freed(recipients, channel.holder);
    Moved {
        next: Channel::new(channel.code, channel.entitled),
        sends: [off.incoming, off.result, end, state, SILENT, SILENT, SILENT],
    }
}

// What happens on a channel, by its event.
#[tactic(auto, unfolding(line_rules::specs::Rules::happens))]
pub fn happens(event: Event, listeners: u8, channel: Channel) -> Moved
    ensures { Follows result (happens event listeners channel) }
{
    match event {
        Event::Capture(d) => capture(listeners, d, channel),
        Event::Release(d) => release(listeners, d, channel),
        Event::Cut => cut(listeners, channel),
        Event::PressOn { desk, number } => press_on(desk, number, channel),
        Event::PressOff => press_off(channel),
        Event::MobileOn { base, number } => mobile_on(listeners, base, number, channel),
        Event::MobileOff => mobile_off(channel),
        Event::Ring { desk, base, number } => ring(desk, base, number, channel),
        Event::Cancel => unanswered(2, channel),
        Event::RingAnswer { desk, matched } => ring_answer(listeners, desk, matched, channel),
        Event::Tick => tick(listeners, channel),
        Event::EndTalk => end_talk(channel),
        Event::EndCall => end_call(listeners, channel),
    }
}
