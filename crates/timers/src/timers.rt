// The timers of a channel: which one falls at a tick, and the channel after it.
ghost use Rattle.std.specs.Prelude.{◌≡◌, ℕ};
ghost use Rattle.line_rules.specs.Rules.{tick};
ghost use Rattle.timers.specs.Falls.{falling, may_fall, is_due, run_out};

use channel::{Channel, Falling, is_held, is_present};

// What a tick does to the timers, asked in the rule's order.
pub fn falls(channel: Channel) -> Falling
    ensures { result ≡ falling channel }
{
    if 0 < channel.ring {
        if 1 < channel.ring {
            return Falling::Ring(channel.ring - 1);
        }
        return Falling::Due;
    }
    let talks = is_held(channel.presser) | is_present(channel.arrival);
    if talks {
        return Falling::Still;
    }
    if 0 < channel.quiet {
        if 1 < channel.quiet {
            return Falling::Quiet(channel.quiet - 1);
        }
        return Falling::Due;
    }
    if !is_held(channel.holder) {
        return Falling::Still;
    }
    if 1 < channel.release {
        return Falling::Release(channel.release - 1);
    }
    Falling::Due
}

// Whether a timer may fall. Where none may, the channel is at rest, as most are.
pub fn may_fall(channel: Channel) -> bool
    ensures { result ≡ may_fall channel }
{
    (0 < channel.quiet) | (0 < channel.ring) | is_held(channel.holder)
}

// Whether a timer runs out. Most have more than a second left, and then it is not asked whether anyone talks.
pub fn is_due(channel: Channel) -> bool
    ensures { result ≡ is_due (falling channel) }
{
    if (channel.ring != 1) & (channel.quiet != 1) & (1 < channel.release) {
        return false;
    }
    matches!(falls(channel), Falling::Due)
}

// The channel after a timer ran out: its call is gone, or its holder.
pub fn run_out(channel: Channel) -> Channel
    ensures { (e : ℕ) → result ≡ (run_out e channel).next }
{
    if 0 < channel.ring {
        return Channel {
            ring: 0,
            call: None,
            ..channel
        };
    }
    if 0 < channel.quiet {
        return Channel {
            quiet: 0,
            call: None,
            ..channel
        };
    }
    Channel {
        release: 0,
        holder: None,
        ..channel
    }
}

// The channel after a tick.
pub fn ticked(channel: Channel) -> Channel
    ensures { (e : ℕ) → result ≡ (tick e channel).next }
{
    match falls(channel) {
        Falling::Still => channel,
        Falling::Ring(left) => Channel {
            ring: left,
            ..channel
        },
        Falling::Quiet(left) => Channel {
            quiet: left,
            ..channel
        },
        Falling::Release(left) => Channel {
            release: left,
            ..channel
        },
        Falling::Due => run_out(channel),
    }
}
