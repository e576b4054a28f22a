// Talk on a channel: the rules for a desk's press and for a mobile.
ghost use Rattle.line_rules.specs.Rules.{press_on, press_off, mobile_on, mobile_off};
ghost use Rattle.sends.specs.Scripts.{Follows};

use super::choices::{
    DESK, mobile_recipients, new_call, opened_by, quiet_after_mobile, quiet_after_press,
    release_after,
};
use channel::{Arrival, Call, Channel, Moved, only, set_of};
use sends::{SILENT, kind_of, mobile_off_sends, mobile_sends, opening, press_sends};
use telegram::Number;

// Talk stops the quiet timer, and the release timer starts anew.
pub fn press_on(d: u8, number: Number, channel: Channel) -> Moved
    ensures { Follows result (press_on d number channel) }
{
    let recipients = only(d);
    let new = new_call(Call::DOWN, recipients, DESK, number);
    let on = press_sends(1, recipients, channel.call);
    let start = opening(channel.call, new);
    let call = opened_by(channel.call, new);
    let quiet = 0;
    Moved {
        next: Channel {
            presser: Some(d),
            quiet,
            release: Channel::RELEASE,
            call,
            ..channel
        },
        sends: [on.answer, start, on.talk, SILENT, SILENT, SILENT, SILENT],
    }
}

pub fn press_off(channel: Channel) -> Moved
    ensures { Follows result (press_off channel) }
{
    let off = press_sends(0, set_of(channel.presser), channel.call);
    let quiet = quiet_after_press(channel.arrival, channel.quiet);
    let release = Channel::RELEASE;
    Moved {
        next: Channel {
            presser: None,
            quiet,
            release,
            ..channel
        },
        sends: [off.answer, off.talk, SILENT, SILENT, SILENT, SILENT, SILENT],
    }
}

pub fn mobile_on(listeners: u8, base: u8, number: Number, channel: Channel) -> Moved
    ensures { Follows result (mobile_on listeners base number channel) }
{
    let recipients = mobile_recipients(channel.holder, listeners);
    let arrival = Arrival {
        kind: kind_of(channel.call),
        recipients,
        base,
        number,
    };
    let new = new_call(Call::UP, recipients, base as u16, number);
    let on = mobile_sends(1, arrival);
    let start = opening(channel.call, new);
    let call = opened_by(channel.call, new);
    let left = release_after(channel.holder, channel.release);
    Moved {
        next: Channel {
            quiet: 0,
            release: left,
            call,
            arrival: Some(arrival),
            ..channel
        },
        sends: [
            on.incoming,
            on.arrival,
            start,
            on.talk,
            SILENT,
            SILENT,
            SILENT,
        ],
    }
}

// Told to those who were told of the mobile on, whoever holds by now.
pub fn mobile_off(channel: Channel) -> Moved
    ensures { Follows result (mobile_off channel) }
{
    let off = mobile_off_sends(channel.arrival);
    let quiet = quiet_after_mobile(channel.call, channel.presser, channel.quiet);
    let release = release_after(channel.holder, channel.release);
    Moved {
        next: Channel {
            quiet,
            release,
            arrival: None,
            ..channel
        },
        sends: [
            off.incoming,
            off.arrival,
            off.talk,
            SILENT,
            SILENT,
            SILENT,
            SILENT,
        ],
    }
}
