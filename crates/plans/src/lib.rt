// Plans, read from bytes: the desks, the channels, and the set that they make.
#![tactic(auto)]

mod channels;
mod desks;
mod plan;

pub use plan::read_plan;
