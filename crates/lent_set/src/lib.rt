// A set that is lent: it is stepped where it lies.
#![tactic(auto)]

mod lent;

pub use lent::step_in;
