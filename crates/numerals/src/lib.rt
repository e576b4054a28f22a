// Numbers as ASCII digits, read: what some bytes spell.
#![tactic(auto)]

mod digits;

pub use digits::{eight, four, read_digits};
