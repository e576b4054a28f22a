// What talk chooses by the parts of a channel: whom it tells, which call is open after it, and how the timers stand.
ghost use Rattle.std.specs.Prelude.{◌≡◌, cond};
ghost use Rattle.channel.specs.State.{is_held, is_present, is_open};
ghost use Rattle.line_rules.specs.Rules.{quiet_time, release_time, general, opened_by, mobile_recipients};

use channel::{Arrival, Call, Channel, is_held, is_open, is_present, only};
use telegram::Number;

// The base of what a desk says.
pub const DESK: u16 = 999;

// Whom a mobile on is told to: the holder alone if held.
pub fn mobile_recipients(holder: Option<u8>, listeners: u8) -> u8
    ensures { result ≡ mobile_recipients holder listeners }
{
    match holder {
        None => listeners,
        Some(d) => only(d),
    }
}

// The call that a desk or a mobile opens.
pub fn new_call(direction: u8, recipients: u8, base: u16, source: Number) -> Call
    ensures { result ≡ record { kind = general; direction = direction; recipients = recipients; base = base; source = source } }
{
    Call {
        kind: Call::GENERAL,
        direction,
        recipients,
        base,
        source,
    }
}

// The call after talk that opens one if there is none.
pub fn opened_by(call: Option<Call>, new: Call) -> Option<Call>
    ensures { result ≡ opened_by call new }
{
    Some(call.unwrap_or(new))
}

// The quiet timer after a press off: it waits for a mobile that talks.
pub fn quiet_after_press(arrival: Option<Arrival>, quiet: u8) -> u8
    ensures { result ≡ cond (is_present arrival) quiet quiet_time }
{
    if is_present(arrival) {
        quiet
    } else {
        Channel::QUIET
    }
}

// The quiet timer after a mobile off: it waits for a desk that presses.
pub fn quiet_after_mobile(call: Option<Call>, presser: Option<u8>, quiet: u8) -> u8
    ensures { result ≡ cond (is_open call) (cond (is_held presser) quiet quiet_time) quiet }
{
    if is_open(call) {
        if is_held(presser) {
            quiet
        } else {
            Channel::QUIET
        }
    } else {
        quiet
    }
}

// The release timer after a mobile on or off: only a holder has one.
pub fn release_after(holder: Option<u8>, release: u8) -> u8
    ensures { result ≡ cond (is_held holder) release_time release }
{
    if is_held(holder) {
        Channel::RELEASE
    } else {
        release
    }
}
