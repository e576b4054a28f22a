// A set as numbers: which set they are, and which numbers a set is kept as.
#![tactic(auto)]

mod convert;
mod plain;

pub use convert::{plain_of, set_in};
pub use plain::{
    PlainArrival, PlainCall, PlainChannel, PlainDesk, PlainParty, PlainSet, PlainSize,
};
