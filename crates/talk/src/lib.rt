// The line rules on talk, as code.
#![tactic(auto)]

mod choices;
mod talk;

pub use talk::{mobile_off, mobile_on, press_off, press_on};
