// The line set: one entry after another steps it.
#![tactic(auto)]

mod all;
mod entry;
mod places;

pub use entry::{step, step_in};
