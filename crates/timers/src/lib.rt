// What a tick does to the timers of a channel.
#![tactic(auto)]

mod timers;

pub use timers::{falls, is_due, may_fall, run_out, ticked};
