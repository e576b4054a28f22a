// The line rules on who holds a channel, as code.
#![tactic(auto)]

mod holding;

pub use holding::{capture, cut, release};
