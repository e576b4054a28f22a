// What a tick does, and what it sends when a timer runs out.
ghost use Rattle.line_rules.specs.Rules.{tick};
ghost use Rattle.timers.specs.Falls.{run_out};
ghost use Rattle.sends.specs.Scripts.{Follows};

use channel::{Channel, Moved};
use rings::unanswered;
use sends::{SILENT, alone, end, freed};
use timers::{is_due, run_out, ticked};

// A timer runs out: the ring ends, or the call, or the hold.
#[tactic(auto, unfolding(timers::specs::Falls::run_out))]
fn due(listeners: u8, channel: Channel) -> Moved
    ensures { Follows result (run_out listeners channel) }
{
    if 0 < channel.ring {
        return unanswered(5, channel);
    }
    let next = run_out(channel);
    if 0 < channel.quiet {
        alone(next, end(3, channel.call))
    } else {
        alone(next, freed(listeners, channel.holder))
    }
}

pub fn tick(listeners: u8, channel: Channel) -> Moved
    ensures { Follows result (tick listeners channel) }
{
    if is_due(channel) {
        return due(listeners, channel);
    }
    alone(ticked(channel), SILENT)
}
